//! The free list of a disk and its super-block, by hand from docs/manual/blocks.md, which is file system(V), and
//! `alloc.c` in Lions' Commentary.
ghost use Rattle.std.specs.Prelude.{◌≡◌, ◌≤◌, ◌<◌, ℕ, nat_eq, count_by};
ghost use Rattle.fs_laws.specs.Chain.{free};
ghost use Rattle.fs_blocks.specs.State.{disk};

use crate::file_system::fixtures::{Piece, have, put, put_words};
use crate::file_system::opened::{is_spent, open_volume};
use fs_blocks::Volume;
use fs_check::{accept, tally};
use std::alloc::{AllocError, Global};
use std::process::Abort;

/// A group of the free list: where its count stands on the disk, its first number, and so many more, which count up
/// from one.
type Group = (usize, u16, u16, u16);

/// The numbers from the first down to the second.
type Down = (u16, u16);

/// The blocks of the disks here, of which 0 to 2 are no data blocks.
const BLOCKS: u16 = 210;

/// A disk with an empty root and no free block. The list of free inodes is 9, 8, 6; the four flags are 1; the time is
/// 0x50006; behind the super-block there is a 9. Block 103 ends with sevens.
static BARE: [Piece<'static>; 5] = [
    (512, b"\x01\x00\xd2\x00"),
    (718, b"\x03\x00\x09\x00\x08\x00\x06\x00"),
    (920, b"\x01\x01\x01\x01\x05\x00\x06\x00\x09"),
    (1024, b"\xed\xc1"),
    (52936, &[7; 312]),
];

type List = (&'static [Group], u16, &'static [Down]);

/// The groups of a free list, how many blocks it has, and in which order they are taken. The super-block's group is at
/// 516, and that of block n at 512 * n.
static LISTS: [List; 8] = [
    // No number, and a number that ends the list.
    (&[], 0, &[]),
    (&[(516, 0, 0, 0)], 0, &[]),
    // One block, with an empty group in it, and one over a number that ends the list.
    (&[(516, 5, 0, 0)], 1, &[(5, 5)]),
    (&[(516, 0, 5, 1)], 1, &[(5, 5)]),
    // A hundred numbers, of which the first ends the list or is a block's.
    (&[(516, 0, 4, 99)], 99, &[(102, 4)]),
    (&[(516, 3, 4, 99)], 100, &[(102, 4), (3, 3)]),
    // 101 numbers, and 201.
    (
        &[(516, 4, 0, 0), (2048, 0, 5, 99)],
        100,
        &[(4, 4), (103, 5)],
    ),
    (
        &[(516, 4, 0, 0), (2048, 5, 6, 99), (2560, 0, 105, 99)],
        200,
        &[(4, 4), (104, 5), (203, 105)],
    ),
];

fn put_group(image: &mut [u8], group: &Group) {
    let (at, link, from, more) = *group;
    put_words(
        image,
        &[(at, more.wrapping_add(1)), (at.wrapping_add(2), link)],
    );
    for k in 0..more {
        let place = at.wrapping_add(4).wrapping_add(2 * usize::from(k));
        put_words(image, &[(place, from.wrapping_add(k))]);
    }
}

fn image_with(alloc: Global, groups: &[Group]) -> Result<Vec<u8>, AllocError> {
    let mut image = vec![in alloc; 0; 512 * usize::from(BLOCKS)]?;
    put(&mut image, &BARE);
    for group in groups {
        put_group(&mut image, group);
    }
    Ok(image)
}

/// How many blocks are free, where the image has no fault.
fn room(image: &[u8]) -> Option<u16> {
    match accept(image) {
        Ok(()) => Some(tally(image).free),
        Err(_) => None,
    }
}

/// What a sync has left on the disk.
fn written(alloc: Global, volume: &Volume) -> Result<Vec<u8>, AllocError> {
    let mut image = Vec::new(alloc);
    for n in 0..BLOCKS {
        image.extend_from_slice(volume.on_disk(n))?;
    }
    Ok(image)
}

/// Whether block `b` is the next, and is all zeros. It is filled with sevens then.
fn takes_block(volume: &mut Volume, b: u16) -> bool {
    match volume.alloc_block() {
        Ok(n) if n == b && b != 1 && b < 4872 => {
            let clear = *volume.block(b) == [0; 512];
            volume.change(b, 0, &[7; 512]);
            clear
        }
        _ => false,
    }
}

/// Whether these are the free blocks, in this order.
fn takes(volume: &mut Volume, order: &[Down]) -> bool {
    for (high, low) in order {
        for b in (*low..=*high).rev() {
            if !takes_block(volume, b) {
                return false;
            }
        }
    }
    is_spent(volume)
}

/// Whether a block can be given back, where none from it on is free.
fn gives_block(volume: &mut Volume, b: u16) -> bool
    requires { (k : ℕ) → b ≤ k → count_by (nat_eq k) (free (disk volume.old.state)) ≡ 0 }
    ensures { (k : ℕ) → b < k → count_by (nat_eq k) (free (disk volume.new.state)) ≡ 0 }
{
    let head = volume.head();
    if head.i_size != 1 || head.f_size != BLOCKS || b < 3 || b >= BLOCKS {
        return false;
    }
    volume.free_block(b);
    true
}

/// Whether these can be given back, one by one, where no block is free.
fn gives(volume: &mut Volume, from: u16, to: u16) -> bool {
    if !is_spent(volume) {
        return false;
    }
    for b in from..to {
        if !gives_block(volume, b) {
            return false;
        }
    }
    true
}

fn list_holds(alloc: Global, row: &List) -> Result<bool, AllocError> {
    let (groups, free, order) = *row;
    let image = image_with(alloc, groups)?;
    let Some(mut volume) = open_volume(alloc, &image)? else {
        return Ok(false);
    };
    Ok(room(&image) == Some(free) && takes(&mut volume, order))
}

#[test]
fn blocks_are_taken_in_order_and_cleared(rt: HostRuntime) {
    for (k, row) in LISTS.iter().enumerate() {
        assert!(rt;
            list_holds(rt.alloc(), row).expect(&rt, "memory"),
            "row {k}"
        );
    }
}

/// What stands in block 103 when blocks 4 to 204 have been given back, where the others of its bytes are sevens still.
static FIRST_GROUP: [Piece<'static>; 2] = [
    (0, b"\x64\0\0\0\x04\0\x05\0"),
    (198, b"\x65\0\x66\0\x07\x07"),
];

/// What stands in block 203 then.
static SECOND_GROUP: [Piece<'static>; 2] = [(0, b"\x64\0\x67\0\x68\0"), (198, b"\xc9\0\xca\0\0\0")];

/// Blocks 4 to 204 are given back. With the 0 that ends the list the first 99 make a full group, which goes into block
/// 103; that makes another with the next 99, which goes into block 203.
fn groups_are_saved(volume: &mut Volume) -> bool {
    if !gives(volume, 4, 205) {
        return false;
    }
    let head = volume.head();
    let in_memory = (head.nfree, head.free[0], head.free[1]) == (2, 203, 204);
    in_memory && have(volume.block(103), &FIRST_GROUP) && have(volume.block(203), &SECOND_GROUP)
}

/// The group of the super-block after a sync, its flags, its time, and what stood behind it.
static GROUP_WRITTEN: [Piece<'static>; 2] = [
    (516, b"\x02\0\xcb\0\xcc\0"),
    (920, b"\0\0\0\0\x02\x01\x04\x03\x09"),
];

/// The 201 blocks come back in the other order, and all zeros. After the sync the disk has none of the flags, the new
/// time, and what stood behind the super-block.
fn blocks_come_back(alloc: Global) -> Result<bool, AllocError> {
    let image = image_with(alloc, &[])?;
    let Some(mut volume) = open_volume(alloc, &image)? else {
        return Ok(false);
    };
    let saved = groups_are_saved(&mut volume);
    volume.sync(0x0102_0304);
    let disk = written(alloc, &volume)?;
    let stands = have(&disk, &GROUP_WRITTEN);
    Ok(saved && stands && room(&disk) == Some(201) && takes(&mut volume, &[(204, 4)]))
}

#[test]
fn blocks_are_given_back_and_taken_again(rt: HostRuntime) {
    assert!(rt; blocks_come_back(rt.alloc()).expect(&rt, "memory"));
}

/// Lists of free inodes in the place of 9, 8, 6, and what then stands from byte 206 of the super-block on.
static SPARES: [(&[u16], Piece<'static>); 4] = [
    (&[], (206, b"\0\0\x09\0\x08\0\x06\0")),
    (&[7], (206, b"\x01\0\x07\0\x08\0\x06\0")),
    (&[0x102, 3], (206, b"\x02\0\x02\x01\x03\0\x06\0")),
    (&[1, 2, 3, 4], (206, b"\x04\0\x01\0\x02\0\x03\0\x04\0\0\0")),
];

/// The list of free inodes before.
static OLD_SPARES: [Piece<'static>; 1] = [(206, b"\x03\0\x09\0\x08\0\x06\0")];

/// What else stands in the super-block after a sync at the time 0x01020304.
static HEAD_WRITTEN: [Piece<'static>; 2] = [
    (0, b"\x01\0\xd2\0\0\0\0\0"),
    (408, b"\0\0\0\0\x02\x01\x04\x03\x09"),
];

/// Whether the list is in memory alone until the sync, which writes once.
fn spares(volume: &mut Volume, list: &[u16], piece: Piece<'_>) -> bool {
    if list.len() > 100 {
        return false;
    }
    volume.set_spare(list);
    let still = have(volume.on_disk(1), &OLD_SPARES);
    volume.sync(0x0102_0304);
    volume.sync(0x0506_0708);
    still && have(volume.on_disk(1), &[piece]) && have(volume.on_disk(1), &HEAD_WRITTEN)
}

fn spare_holds(alloc: Global, row: &(&[u16], Piece<'_>)) -> Result<bool, AllocError> {
    let (list, piece) = *row;
    match open_volume(alloc, &image_with(alloc, &[])?)? {
        Some(mut volume) => Ok(spares(&mut volume, list, piece)),
        None => Ok(false),
    }
}

#[test]
fn list_of_free_inodes_is_written_by_a_sync(rt: HostRuntime) {
    for (k, row) in SPARES.iter().enumerate() {
        assert!(rt;
            spare_holds(rt.alloc(), row).expect(&rt, "memory"),
            "row {k}"
        );
    }
}

/// What stands in the super-block that no sync has written.
static HEAD_LEFT: [Piece<'static>; 2] = [
    (4, b"\x01\0\0\0"),
    (408, b"\x01\x01\x01\x01\x05\0\x06\0\x09"),
];

/// A list that only a 0 ends, a block that is taken in vain, and one that is written: no sync writes the super-block,
/// though the one in memory has no number any more.
fn writes_nothing(volume: &mut Volume) -> bool {
    if !is_spent(volume) {
        return false;
    }
    volume.change(3, 511, b"x");
    volume.sync(0x0102_0304);
    let head = volume.head();
    let in_memory = (head.nfree, head.flock, head.time) == (0, 0, 0x5_0006);
    in_memory && have(volume.on_disk(1), &HEAD_LEFT) && volume.on_disk(3)[511] == b'x'
}

fn sync_writes_nothing(alloc: Global) -> Result<bool, AllocError> {
    match open_volume(alloc, &image_with(alloc, &[(516, 0, 0, 0)])?)? {
        Some(mut volume) => Ok(writes_nothing(&mut volume)),
        None => Ok(false),
    }
}

#[test]
fn sync_without_a_change_leaves_the_super_block(rt: HostRuntime) {
    assert!(rt; sync_writes_nothing(rt.alloc()).expect(&rt, "memory"));
}

/// Whether no block can be taken, once and twice, and the list has no number then.
fn stays_spent(volume: &mut Volume) -> bool {
    is_spent(volume) && is_spent(volume) && volume.head().nfree == 0
}

/// The list has a 0, under which there is the number of block 5.
fn zero_ends_the_list(alloc: Global) -> Result<bool, AllocError> {
    match open_volume(alloc, &image_with(alloc, &[(516, 5, 0, 1)])?)? {
        Some(mut volume) => Ok(stays_spent(&mut volume)),
        None => Ok(false),
    }
}

#[test]
fn a_list_ends_for_good_with_a_0(rt: HostRuntime) {
    assert!(rt; zero_ends_the_list(rt.alloc()).expect(&rt, "memory"));
}
