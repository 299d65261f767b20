//! Inodes that are referred to, and calls that set their fields, by hand from iget, iput, itrunc and update of Lions'
//! Commentary and from file system(V): what a call sets stands in the inode's 32 bytes on the disk after the next update,
//! and what it changes of the super-block too.
use crate::file_system::calls::{Call, answer};
use crate::file_system::fixtures::{Piece, TWENTY_BLOCKS, put};
use crate::file_system::opened::{open, stands, takes};
use Call::{Device, Empty, Links, Mode, Owner, Put, Take, Truncate, Update};
use fs_nodes::Nodes;
use std::alloc::{AllocError, Global};
use std::process::Abort;
use v6_base::Errno;

/// A disk of twenty blocks with 16 inodes. Inode 1 is a directory without blocks. Inode 2 is a plain file of 1500
/// bytes, with block 3 as its first and block 5 as its third, and a hole between; its last byte of block 3 is 7, the
/// first of block 5 is 8, byte 475 of block 5, the last of the file, is 9, and the byte behind it is 10. Inode 3 is
/// device 8, 1 with a size. Inode 4 is a plain file of 4 bytes in block 6. Block 4 is free.
static DISK: [Piece<'static>; 10] = [
    (512, b"\x01\x00\x14\x00\x02\x00\x00\x00\x04\x00"),
    (1024, b"\xed\xc1\x02"),
    (
        1056,
        b"\xa4\x81\x01\x02\x03\x00\xdc\x05\x03\x00\x00\x00\x05\x00",
    ),
    (1080, b"\x00\x00\x01\x00\x00\x00\x02\x00"),
    (1088, b"\xb6\xa1\x01\x00\x00\x00\x20\x00\x01\x08"),
    (1120, b"\xa4\x81\x00\x00\x00\x00\x04\x00\x06\x00"),
    (2047, b"\x07"),
    (2560, b"\x08"),
    (3035, b"\x09\x0a"),
    (3072, b"abcdefgh"),
];

/// Calls at the time 0x01020304, and the bytes that then stand at a place of the disk. An update writes the inodes.
type Row = (&'static [Call], usize, &'static [u8]);

static CALLS: [Row; 16] = [
    // What a call sets is on the disk after an update, and not before.
    (
        &[Take(2), Mode(2, 0o104755)],
        1056,
        b"\xa4\x81\x01\x02\x03\x00\xdc\x05",
    ),
    // The mode, and the time of the change behind that of the access.
    (
        &[Take(2), Mode(2, 0o104755), Update],
        1056,
        b"\xed\x89\x01\x02\x03\x00\xdc\x05",
    ),
    (
        &[Take(2), Mode(2, 0o100644), Update],
        1080,
        b"\x00\x00\x01\x00\x02\x01\x04\x03",
    ),
    (
        &[Take(2), Owner(2, 5, 6), Update],
        1056,
        b"\xa4\x81\x01\x05\x06\x00\xdc\x05",
    ),
    (
        &[Take(2), Owner(2, 2, 3), Update],
        1080,
        b"\x00\x00\x01\x00\x02\x01\x04\x03",
    ),
    (
        &[Take(2), Links(2, 200), Update],
        1056,
        b"\xa4\x81\xc8\x02\x03",
    ),
    (&[Take(2), Links(2, 1), Update], 1084, b"\x02\x01\x04\x03"),
    // A device, of which no time is set, nor of a pipe.
    (
        &[Take(3), Device(3, 0x0902), Update],
        1088,
        b"\xb6\xa1\x01\x00\x00\x00\x20\x00\x02\x09\x00\x00",
    ),
    (
        &[Take(3), Device(3, 0x0902), Update],
        1112,
        b"\x00\x00\x00\x00\x00\x00\x00\x00",
    ),
    (
        &[Take(2), Empty(2), Update],
        1056,
        b"\xa4\x81\x01\x02\x03\x00\x00\x00\x03\x00\x00\x00\x05\x00",
    ),
    (
        &[Take(2), Empty(2), Update],
        1080,
        b"\x00\x00\x01\x00\x00\x00\x02\x00",
    ),
    // A file gives its blocks back: 5 goes first, 3 last. The super-block is written by the update alone.
    (
        &[Take(2), Truncate(2), Update],
        1056,
        b"\xa4\x81\x01\x02\x03\x00\x00\x00\x00\x00\x00\x00\x00\x00",
    ),
    (
        &[Take(2), Truncate(2)],
        516,
        b"\x02\x00\x00\x00\x04\x00\x00\x00",
    ),
    (
        &[Take(2), Truncate(2), Update],
        516,
        b"\x04\x00\x00\x00\x04\x00\x05\x00\x03\x00",
    ),
    // A device stays as it is.
    (
        &[Take(3), Truncate(3), Update],
        1088,
        b"\xb6\xa1\x01\x00\x00\x00\x20\x00\x01\x08",
    ),
    // Of one that is freed the mode is 0, and its number stays.
    (
        &[Take(3), Links(3, 0), Put(3), Update],
        1088,
        b"\x00\x00\x00\x00\x00\x00\x20\x00\x01\x08",
    ),
];

/// The 16 bytes of a file from an offset on.
static LOOKS: [(u16, u32, [u8; 16]); 8] = [
    (4, 0, *b"abcd\0\0\0\0\0\0\0\0\0\0\0\0"),
    (4, 3, *b"d\0\0\0\0\0\0\0\0\0\0\0\0\0\0\0"),
    (4, 4, [0; 16]),
    (4, 0xffff_fff0, [0; 16]),
    // The end of block 3 and the hole, the hole alone, the hole and block 5, and the end of the file.
    (2, 511, *b"\x07\0\0\0\0\0\0\0\0\0\0\0\0\0\0\0"),
    (2, 600, [0; 16]),
    (2, 1009, *b"\0\0\0\0\0\0\0\0\0\0\0\0\0\0\0\x08"),
    (2, 1498, *b"\0\x09\0\0\0\0\0\0\0\0\0\0\0\0\0\0"),
];

/// A byte of a block of a file: the inode, the block, the byte's place there, and what it is.
static BLOCKS: [(u16, u16, usize, u8); 9] = [
    // What lies behind the file in its last block is shown too.
    (4, 0, 3, b'd'),
    (4, 0, 4, b'e'),
    // Block 3, the hole, block 5, and a block that isn't there.
    (2, 0, 511, 7),
    (2, 1, 0, 0),
    (2, 2, 0, 8),
    (2, 2, 475, 9),
    (2, 2, 476, 10),
    (2, 65535, 511, 0),
    // A device has none.
    (3, 0, 0, 0),
];

/// A disk with these pieces.
fn image_with(pieces: &[Piece<'_>]) -> [u8; TWENTY_BLOCKS] {
    let mut image = [0; TWENTY_BLOCKS];
    put(&mut image, pieces);
    image
}

fn holds(alloc: Global, row: &Row) -> Result<bool, AllocError> {
    let Some(mut nodes) = open(alloc, &image_with(&DISK))? else {
        return Ok(false);
    };
    for call in row.0 {
        if answer(&mut nodes, *call, 0x0102_0304) != (0, None) {
            return Ok(false);
        }
    }
    Ok(stands(&nodes, row.1, row.2))
}

#[test]
fn what_a_call_sets_stands_on_the_disk(rt: HostRuntime) {
    for (k, row) in CALLS.iter().enumerate() {
        assert!(rt; holds(rt.alloc(), row).expect(&rt, "memory"), "row {k}");
    }
}

fn looks(alloc: Global, row: &(u16, u32, [u8; 16])) -> Result<bool, AllocError> {
    let Some(mut nodes) = open(alloc, &image_with(&DISK))? else {
        return Ok(false);
    };
    let mut buf = [1; 16];
    if nodes.peek(row.0).is_some() {
        nodes.look(row.0, row.1, &mut buf);
    }
    Ok(buf == row.2)
}

#[test]
fn a_look_shows_sixteen_bytes(rt: HostRuntime) {
    for (k, row) in LOOKS.iter().enumerate() {
        assert!(rt; looks(rt.alloc(), row).expect(&rt, "memory"), "row {k}");
    }
}

fn looks_at_block(alloc: Global, row: &(u16, u16, usize, u8)) -> Result<bool, AllocError> {
    let Some(mut nodes) = open(alloc, &image_with(&DISK))? else {
        return Ok(false);
    };
    let mut buf = [1; 512];
    if nodes.peek(row.0).is_some() {
        nodes.look_block(row.0, row.1, &mut buf);
    }
    Ok(buf.get(row.2) == Some(&row.3))
}

#[test]
fn a_look_shows_a_block(rt: HostRuntime) {
    for (k, row) in BLOCKS.iter().enumerate() {
        assert!(rt;
            looks_at_block(rt.alloc(), row).expect(&rt, "memory"),
            "row {k}"
        );
    }
}

/// Numbers, and whether they are those of used inodes.
static USED: [(u16, bool); 8] = [
    (0, false),
    (1, true),
    (3, true),
    (4, true),
    (5, false),
    (16, false),
    (17, false),
    (65535, false),
];

fn peeks(alloc: Global, row: &(u16, bool)) -> Result<bool, AllocError> {
    match open(alloc, &image_with(&DISK))? {
        Some(mut nodes) => Ok(nodes.peek(row.0).is_some() == row.1),
        None => Ok(false),
    }
}

#[test]
fn used_numbers_can_be_peeked_at(rt: HostRuntime) {
    for (k, row) in USED.iter().enumerate() {
        assert!(rt; peeks(rt.alloc(), row).expect(&rt, "memory"), "row {k}");
    }
}

/// Seven blocks of inodes, of which 1 is a directory.
static HUNDRED: [Piece<'static>; 2] = [(512, b"\x07\x00\x14\x00"), (1024, b"\xed\xc1\x02")];

/// A disk of 112 plain files, but for the root.
fn many() -> [u8; TWENTY_BLOCKS] {
    let mut image = image_with(&HUNDRED);
    for ino in 2..113_usize {
        put(&mut image, &[(992 + 32 * ino, b"\xa4\x81\x01")]);
    }
    image
}

/// Refers to the inodes from 1 on that are below a number.
fn takes_below(nodes: &mut Nodes, end: u16) -> bool {
    for ino in 1..end {
        if !takes(nodes, ino) {
            return false;
        }
    }
    true
}

/// Whether the 101st is refused, where a hundred are referred to.
fn is_full(nodes: &mut Nodes) -> bool {
    nodes.peek(101).is_some() && nodes.refs(101) == 0 && nodes.take(101) == Err(Errno::ENFILE)
}

/// A hundred of 112 inodes are referred to. The answer is whether the 101st is refused, one of the hundred is not, and
/// the 101st is not either once another has been given back.
fn fills(alloc: Global) -> Result<bool, AllocError> {
    let Some(mut nodes) = open(alloc, &many())? else {
        return Ok(false);
    };
    let full = takes_below(&mut nodes, 101) && is_full(&mut nodes);
    let again = takes(&mut nodes, 50) && nodes.refs(50) == 2;
    let back = answer(&mut nodes, Put(7), 1) == (0, None) && nodes.refs(7) == 0;
    Ok(full && again && back && takes(&mut nodes, 101) && nodes.refs(101) == 1)
}

#[test]
fn a_hundred_inodes_are_referred_to(rt: HostRuntime) {
    assert!(rt; fills(rt.alloc()).expect(&rt, "memory"));
}
