//! Reads and writes of a file, by hand from file system(V), and from readi, writei and bmap of Lions' Commentary: a
//! piece ends with its block, its block is taken before its bytes are copied, and what was done stays done.
use crate::file_system::fixtures::{Word, image_of};
use crate::file_system::opened::{disk_has, open, takes};
use fs_nodes::{Moved, Nodes};
use std::alloc::{AllocError, Global};
use std::process::Abort;
use v6_base::{Errno, Space, Whole};

/// Twenty blocks: inode 1 is a directory that holds block 3, and inode 2 a plain file without a block. `nfree` is at
/// 516 and its numbers from 518 on: blocks 7, 6, 5, 4 are taken in this order. Inode 2 is at 1056: its mode comes
/// first, then links and owner, owner's group and the high byte of its size; the rest of its size is at 1062, its
/// addresses are from 1064 to 1079, and its times from 1080 on, each with its high word first. Block n begins at 512 *
/// n.
static DISK: [Word; 12] = [
    (512, 1),
    (514, 20),
    (516, 5),
    (520, 4),
    (522, 5),
    (524, 6),
    (526, 7),
    (1024, 0o140755),
    (1032, 3),
    (1056, 0o100644),
    (1080, 1),
    (1084, 2),
];

/// The time of each call, and its two words.
const TIME: u32 = 0x0005_0006;

/// What is done with inode 2: bytes are read or written by the kernel, or by a process from an address on.
#[derive(Clone, Copy)]
enum Call {
    Write(&'static [u8]),
    Read(&'static [u8]),
    WriteFrom(u16, u16),
    ReadTo(u16, u16),
}

/// Words of the disk before; the offset and the call; what it answers; and words of the disk after.
type Row = (
    &'static [Word],
    u32,
    Call,
    u16,
    Option<Errno>,
    &'static [Word],
);

static ROWS: [Row; 21] = [
    // Three bytes at 510 of an empty file: two pieces and two blocks. The size is 513, and both times are set.
    (
        &[],
        510,
        Call::Write(&[1, 2, 3]),
        3,
        None,
        &[
            (516, 3),
            (1062, 513),
            (1064, 7),
            (1066, 6),
            (1080, 5),
            (1082, 6),
            (1084, 5),
            (1086, 6),
            (4094, 0x0201),
            (3072, 3),
        ],
    ),
    // Two bytes within a file of 600: its size stays.
    (
        &[
            (1062, 600),
            (1064, 8),
            (1066, 9),
            (4096, 0x1110),
            (4098, 0x1312),
        ],
        1,
        Call::Write(&[1, 2]),
        2,
        None,
        &[
            (516, 5),
            (1062, 600),
            (4096, 0x0110),
            (4098, 0x1302),
            (1084, 5),
        ],
    ),
    // A read across a hole takes a block for it, and sets the time of access alone.
    (
        &[(1062, 514), (1066, 9), (4608, 0x1211)],
        511,
        Call::Read(&[0, 0x11, 0x12]),
        3,
        None,
        &[
            (516, 4),
            (1062, 514),
            (1064, 7),
            (1066, 9),
            (1080, 5),
            (1082, 6),
            (1084, 2),
            (1086, 0),
        ],
    ),
    // A read ends with the file: what lies behind the last byte stays as it was in the buffer.
    (
        &[(1062, 3), (1064, 8), (4096, 0x1110), (4098, 0x1312)],
        1,
        Call::Read(&[0x11, 0x12, 0xff, 0xff]),
        2,
        None,
        &[(516, 5), (1080, 5)],
    ),
    // A read at the end, and one behind it, give nothing, take no block, and set the time of access.
    (
        &[(1062, 3)],
        3,
        Call::Read(&[0xff, 0xff]),
        0,
        None,
        &[(516, 5), (1064, 0), (1080, 5), (1084, 2)],
    ),
    (
        &[(1062, 3)],
        0xffff_ffff,
        Call::Read(&[0xff, 0xff]),
        0,
        None,
        &[(516, 5), (1064, 0), (1080, 5)],
    ),
    // No byte is read or written: no time is set, also where the offset is too large.
    (
        &[(1062, 3)],
        0,
        Call::Read(&[]),
        0,
        None,
        &[(516, 5), (1080, 1), (1084, 2)],
    ),
    (
        &[],
        600,
        Call::Write(&[]),
        0,
        None,
        &[(516, 5), (1062, 0), (1080, 1), (1084, 2)],
    ),
    (
        &[],
        0xffff_ffff,
        Call::Write(&[]),
        0,
        None,
        &[(516, 5), (1062, 0), (1080, 1), (1084, 2)],
    ),
    // A device has no bytes here, and its times are set.
    (
        &[(1056, 0o120644), (1062, 9), (1064, 0x0102)],
        0,
        Call::Read(&[0xff]),
        0,
        None,
        &[(516, 5), (1064, 0x0102), (1080, 5), (1084, 2)],
    ),
    (
        &[(1056, 0o160644), (1064, 0x0102)],
        0,
        Call::Write(&[1]),
        0,
        None,
        &[(516, 5), (1062, 0), (1064, 0x0102), (1080, 5), (1084, 5)],
    ),
    // The second piece finds no room: the first is done, and the size is 512.
    (
        &[(516, 2)],
        510,
        Call::Write(&[1, 2, 3]),
        2,
        Some(Errno::ENOSPC),
        &[(516, 0), (1062, 512), (1064, 4), (1066, 0), (2558, 0x0201)],
    ),
    (
        &[(516, 1), (1062, 2)],
        0,
        Call::Read(&[0xff]),
        0,
        Some(Errno::ENOSPC),
        &[(516, 1), (1064, 0), (1080, 5)],
    ),
    // The second piece would end at byte 16,777,216: the first, one byte, is done. It has taken the first indirect
    // block, with the double indirect block, indirect block 127 and data block 32766, and the file is large.
    (
        &[],
        16_776_703,
        Call::Write(&[9; 513]),
        1,
        Some(Errno::EFBIG),
        &[
            (516, 1),
            (1056, 0o110644),
            (1060, 0xff00),
            (1062, 0xfe00),
            (1064, 7),
            (1078, 6),
            (3312, 5),
            (3068, 4),
            (2558, 0x0900),
        ],
    ),
    // A piece that would end behind the greatest size takes no block, and neither does one far behind it.
    (
        &[],
        16_777_215,
        Call::Write(&[1]),
        0,
        Some(Errno::EFBIG),
        &[(516, 5), (1056, 0o100644), (1062, 0), (1084, 5)],
    ),
    (
        &[],
        0xffff_ffff,
        Call::Write(&[1]),
        0,
        Some(Errno::EFBIG),
        &[(516, 5), (1056, 0o100644), (1062, 0), (1084, 5)],
    ),
    // A directory does not grow behind byte 65,520, but one that is longer is written within itself.
    (
        &[(1056, 0o140755), (1062, 65520)],
        65520,
        Call::Write(&[1]),
        0,
        Some(Errno::EFBIG),
        &[(516, 5), (1062, 65520)],
    ),
    (
        &[(1056, 0o140755), (1062, 65530)],
        65528,
        Call::Write(&[1, 2]),
        2,
        None,
        &[
            (516, 3),
            (1056, 0o150755),
            (1062, 65530),
            (1064, 7),
            (3838, 6),
            (3576, 0x0201),
        ],
    ),
    // Bytes behind the size of an old file come to light where a write makes it larger.
    (
        &[(1062, 1), (1064, 8), (4096, 0x1110), (4098, 0x1312)],
        3,
        Call::Write(&[1]),
        1,
        None,
        &[(1062, 4), (4096, 0x1110), (4098, 0x0112)],
    ),
    // The memory has 64 bytes, from address 0 on: the piece of the bytes behind them takes its block, and nothing of it
    // is copied.
    (
        &[],
        510,
        Call::WriteFrom(62, 4),
        2,
        Some(Errno::EFAULT),
        &[
            (516, 3),
            (1062, 512),
            (1064, 7),
            (1066, 6),
            (4094, 0x3f3e),
            (3072, 0),
        ],
    ),
    (
        &[(1062, 514), (1064, 8), (4606, 0x1211)],
        510,
        Call::ReadTo(62, 4),
        2,
        Some(Errno::EFAULT),
        &[(516, 4), (1062, 514), (1066, 7), (1080, 5), (1084, 2)],
    ),
];

/// A memory of 64 bytes, of which each is its address.
fn memory(alloc: Global) -> Result<Whole, AllocError> {
    let mut space = Whole::new(alloc)?;
    space.set_sizes(0, 1, 0);
    for at in 0..64 {
        let _ = space.store_byte(at, at as u8);
    }
    Ok(space)
}

/// What comes of a call, and whether the bytes that were read are those that the row wants.
type Came = (Moved, bool);

const NOTHING: Came = (
    Moved {
        done: 0,
        error: Some(Errno::EINVAL),
    },
    false,
);

fn write(nodes: &mut Nodes, offset: u32, bytes: &[u8]) -> Came {
    if nodes.refs(2) == 0 || bytes.len() > 65535 {
        return NOTHING;
    }
    (nodes.write_kernel(2, offset, bytes, TIME), true)
}

fn read(nodes: &mut Nodes, offset: u32, bytes: &[u8]) -> Came {
    let mut buf = [0xff; 4];
    if nodes.refs(2) == 0 || bytes.len() > 4 {
        return NOTHING;
    }
    let moved = nodes.read_kernel(2, offset, &mut buf[0..bytes.len()], TIME);
    (moved, &buf[0..bytes.len()] == bytes)
}

fn write_from(nodes: &mut Nodes, offset: u32, space: &Whole, at: u16, count: u16) -> Came {
    if nodes.refs(2) == 0 {
        return NOTHING;
    }
    (nodes.write_at(2, offset, space, at, count, TIME), true)
}

/// The bytes before address 64 are then those of the row.
fn read_to(nodes: &mut Nodes, offset: u32, space: &mut Whole, at: u16, count: u16) -> Came {
    if nodes.refs(2) == 0 {
        return NOTHING;
    }
    let moved = nodes.read_at(2, offset, space, at, count, TIME);
    let there = space.load_word(62) == Ok(0x1211) && space.load_word(60) == Ok(0x3d3c);
    (moved, there)
}

/// Does the call on inode 2.
fn carry_out(nodes: &mut Nodes, space: &mut Whole, offset: u32, call: Call) -> Came {
    match call {
        Call::Write(bytes) => write(nodes, offset, bytes),
        Call::Read(bytes) => read(nodes, offset, bytes),
        Call::WriteFrom(at, count) => write_from(nodes, offset, space, at, count),
        Call::ReadTo(at, count) => read_to(nodes, offset, space, at, count),
    }
}

fn holds(alloc: Global, row: &Row) -> Result<bool, AllocError> {
    let (before, offset, call, done, error, after) = *row;
    let Some(mut nodes) = open(alloc, &image_of(&DISK, before))? else {
        return Ok(false);
    };
    if !takes(&mut nodes, 2) {
        return Ok(false);
    }
    let mut space = memory(alloc)?;
    let (moved, same) = carry_out(&mut nodes, &mut space, offset, call);
    nodes.update_all(9);
    Ok(same && moved == Moved { done, error } && disk_has(&nodes, after))
}

#[test]
fn files_are_read_and_written_piece_by_piece(rt: HostRuntime) {
    for (k, row) in ROWS.iter().enumerate() {
        assert!(rt; holds(rt.alloc(), row).expect(&rt, "memory"), "row {k}");
    }
}
