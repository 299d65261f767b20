//! Inodes that are made and freed, by hand from ialloc, ifree and iput of Lions' Commentary: the list of the
//! super-block is drawn from its end, a number of it that is not a free inode's is dropped, and where nothing is left
//! the list becomes the first hundred free numbers, in rising order. An inode without links is freed with its last
//! reference.
use crate::file_system::calls::{Call, answer};
use crate::file_system::fixtures::{TWENTY_BLOCKS, image_of, put_words};
use crate::file_system::opened::{open, stands, takes};
use fs_nodes::Nodes;
use std::alloc::{AllocError, Global};
use std::process::Abort;
use v6_base::Errno;

/// What is asked of a file system, and what must come of it.
#[derive(Clone, Copy)]
enum Step {
    /// New inodes have the numbers from the first down to the second.
    Makes(u16, u16),
    /// There is none for a new inode.
    NoSpace,
    /// A hundred inodes are referred to, and this is none of them.
    Full,
    /// The inode is used, and can be referred to.
    Takes(u16),
    /// The reference can be given back.
    Puts(u16),
    /// The inode has a link from now on.
    Links(u16),
    /// After an update the list of the super-block has so many numbers.
    Lists(u16),
    /// The inode is used, or free.
    IsUsed(u16),
    IsFree(u16),
}

use Step::{Full, IsFree, IsUsed, Links, Lists, Makes, NoSpace, Puts, Takes};

/// How many blocks of inodes a disk has, which of its inodes are free, its list of free inodes, and what it goes
/// through.
type Row = (u16, &'static [(u16, u16)], &'static [u16], &'static [Step]);

/// A disk of 32 inodes has blocks 2 and 3 for them, and one of 128 has blocks 2 to 9. Those that are not free are plain
/// files without links, but inode 1, a directory. Free inodes are told as pairs of a first and a last number.
static ROWS: [Row; 12] = [
    // From the end; then 1, 3, 5 and 8 are used, and the others fill the list.
    (
        2,
        &[(2, 32)],
        &[5, 8, 3],
        &[
            Makes(3, 3),
            Makes(8, 8),
            Makes(5, 5),
            Makes(32, 9),
            Makes(7, 6),
            Makes(4, 4),
            Makes(2, 2),
            NoSpace,
            NoSpace,
        ],
    ),
    // 65535 and 33 are no numbers of this disk, 1 is used, and 0 is none.
    (
        2,
        &[(2, 32)],
        &[6, 0, 33, 1, 65535],
        &[Makes(6, 6), Makes(32, 7)],
    ),
    (2, &[(7, 7)], &[33, 0, 6], &[Makes(7, 7), NoSpace]),
    // The list is filled in rising order.
    (
        2,
        &[(3, 4), (7, 7), (9, 9), (12, 12)],
        &[],
        &[
            Makes(12, 12),
            Makes(9, 9),
            Makes(7, 7),
            Makes(4, 3),
            NoSpace,
            Puts(9),
            Makes(9, 9),
            NoSpace,
        ],
    ),
    // There is no free inode. A list of used numbers is empty then, on the disk too.
    (2, &[], &[], &[NoSpace, IsUsed(32)]),
    (
        2,
        &[],
        &[1, 2, 31, 32],
        &[Lists(4), NoSpace, Lists(0), NoSpace, Lists(0)],
    ),
    // The last inode of the disk, and none past it.
    (2, &[(32, 32)], &[], &[Makes(32, 32), IsUsed(32), NoSpace]),
    // The first hundred of 127: the list ends with 101.
    (8, &[(2, 128)], &[], &[Makes(101, 100), IsFree(102)]),
    // Only the second half is free.
    (
        8,
        &[(60, 128)],
        &[],
        &[Makes(128, 127), Puts(127), Makes(127, 127)],
    ),
    // A hundred are referred to: 101 to 2. 128 is drawn from the list that was filled again, and stays out of it; so
    // does 126.
    (
        8,
        &[(2, 128)],
        &[],
        &[
            Makes(101, 2),
            Full,
            Links(2),
            Puts(2),
            IsUsed(2),
            Makes(127, 127),
            Full,
            Puts(127),
            IsFree(127),
            Makes(127, 127),
            Links(50),
            Puts(50),
            Makes(125, 125),
            IsFree(128),
            IsFree(126),
        ],
    ),
    // What was freed last is drawn first. An inode is freed with its last reference alone, and inode 1 never is.
    (
        2,
        &[(2, 32)],
        &[5, 9],
        &[
            Makes(9, 9),
            Makes(5, 5),
            Puts(9),
            Puts(5),
            IsFree(5),
            Makes(5, 5),
            Makes(9, 9),
            Takes(9),
            Puts(9),
            IsUsed(9),
            Puts(9),
            IsFree(9),
            Takes(1),
            Puts(1),
            IsUsed(1),
            Makes(9, 9),
            Makes(32, 32),
        ],
    ),
    // An inode of the disk without links, which is used, goes into the list too.
    (
        2,
        &[(3, 32)],
        &[7],
        &[
            Takes(2),
            Puts(2),
            IsFree(2),
            Makes(2, 2),
            Makes(7, 7),
            Makes(32, 32),
        ],
    ),
];

/// The words of a list with 98 times 4 and then 5, and with one more 4 in front.
static LONG: [(u16, &[Step]); 2] = [
    (
        99,
        &[
            Takes(2),
            Puts(2),
            Makes(2, 2),
            Makes(5, 5),
            Makes(4, 4),
            Makes(32, 32),
        ],
    ),
    (
        100,
        &[
            Takes(2),
            Puts(2),
            IsFree(2),
            Makes(5, 5),
            Makes(4, 4),
            Makes(32, 32),
        ],
    ),
];

fn is_within(free: &[(u16, u16)], ino: u16) -> bool {
    free.iter().any(|(low, high)| *low <= ino && ino <= *high)
}

/// The image of a disk of twenty blocks, of which none is free: inode i begins at 992 + 32 * i with its mode.
fn disk_with(blocks: u16, free: &[(u16, u16)]) -> [u8; TWENTY_BLOCKS] {
    let mut bytes = image_of(&[(512, blocks), (514, 20), (1024, 0o140755)], &[]);
    for ino in 2..129 {
        if ino <= blocks.wrapping_mul(16) && !is_within(free, ino) {
            let at = 992_usize.wrapping_add(32 * usize::from(ino));
            put_words(&mut bytes, &[(at, 0o100644)]);
        }
    }
    bytes
}

/// Makes these numbers the list of free inodes.
fn put_list(bytes: &mut [u8], list: &[u16]) {
    put_words(bytes, &[(718, (list.len() % 65536) as u16)]);
    for (k, ino) in list.iter().enumerate() {
        put_words(bytes, &[(720_usize.wrapping_add(k.wrapping_mul(2)), *ino)]);
    }
}

fn makes(nodes: &mut Nodes, high: u16, low: u16) -> bool {
    for ino in (low..=high).rev() {
        if nodes.new_node(0, 0o644, 1, 2, 3) != Ok(ino) {
            return false;
        }
    }
    true
}

fn puts(nodes: &mut Nodes, ino: u16) -> bool {
    let refs = nodes.refs(ino);
    if refs == 0 {
        return false;
    }
    nodes.put(ino, 4);
    nodes.refs(ino) == refs - 1
}

fn lists(nodes: &mut Nodes, count: u16) -> bool {
    nodes.update_all(4);
    stands(nodes, 718, count.to_le_bytes().as_slice())
}

fn does(nodes: &mut Nodes, step: Step) -> bool {
    match step {
        Makes(high, low) => makes(nodes, high, low),
        NoSpace => nodes.new_node(0, 0o644, 1, 2, 3) == Err(Errno::ENOSPC),
        Full => nodes.new_node(0, 0o644, 1, 2, 3) == Err(Errno::ENFILE),
        Takes(ino) => takes(nodes, ino),
        Puts(ino) => puts(nodes, ino),
        Links(ino) => answer(nodes, Call::Links(ino, 1), 4) == (0, None),
        Lists(count) => lists(nodes, count),
        IsUsed(ino) => nodes.peek(ino).is_some(),
        IsFree(ino) => nodes.peek(ino).is_none(),
    }
}

/// Whether each step holds.
fn holds(alloc: Global, image: &[u8], steps: &[Step]) -> Result<bool, AllocError> {
    let Some(mut nodes) = open(alloc, image)? else {
        return Ok(false);
    };
    for next in steps {
        if !does(&mut nodes, *next) {
            return Ok(false);
        }
    }
    Ok(true)
}

fn row_holds(alloc: Global, row: &Row) -> Result<bool, AllocError> {
    let (blocks, free, list, steps) = *row;
    let mut image = disk_with(blocks, free);
    put_list(&mut image, list);
    holds(alloc, &image, steps)
}

#[test]
fn inodes_are_made_and_freed(rt: HostRuntime) {
    for (k, row) in ROWS.iter().enumerate() {
        assert!(rt; row_holds(rt.alloc(), row).expect(&rt, "memory"), "row {k}");
    }
}

fn long_holds(alloc: Global, row: &(u16, &[Step])) -> Result<bool, AllocError> {
    let (count, steps) = *row;
    let mut image = disk_with(2, &[(3, 32)]);
    put_list(&mut image, &[4; 100]);
    put_words(
        &mut image,
        &[
            (718, count),
            (718_usize.wrapping_add(2 * usize::from(count)), 5),
        ],
    );
    holds(alloc, &image, steps)
}

#[test]
fn a_list_of_a_hundred_takes_no_more(rt: HostRuntime) {
    for (k, row) in LONG.iter().enumerate() {
        assert!(rt;
            long_holds(rt.alloc(), row).expect(&rt, "memory"),
            "row {k}"
        );
    }
}

/// Whether a list that was filled with 30, 31 and 32 stands whole on the disk, with a count of two, once 32 is drawn.
fn is_filled_whole(alloc: Global) -> Result<bool, AllocError> {
    let Some(mut nodes) = open(alloc, &disk_with(2, &[(30, 32)]))? else {
        return Ok(false);
    };
    let is_made = nodes.new_node(0, 0o644, 1, 2, 3) == Ok(32);
    nodes.update_all(4);
    let words = &nodes.on_disk(0, 1)[206..214];
    Ok(is_made && words == [2, 0, 30, 0, 31, 0, 32, 0].as_slice())
}

#[test]
fn a_list_is_filled_before_numbers_are_drawn(rt: HostRuntime) {
    assert!(rt; is_filled_whole(rt.alloc()).expect(&rt, "memory"));
}
