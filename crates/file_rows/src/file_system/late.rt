//! Inodes that are in memory, and what the disk has of them: docs/manual/inodes.md, "Inodes in memory", by hand from iget,
//! iput, iupdat and update of Lions' Commentary.
use crate::file_system::calls::{Call, answer};
use crate::file_system::fixtures::{Piece, TWENTY_BLOCKS, put};
use crate::file_system::opened::{open, stands};
use Call::{Links, Mode, New, Owner, Put, Read, Take, Truncate, Update, Write};
use Step::{Does, Has};
use fs_nodes::Nodes;
use std::alloc::{AllocError, Global};

/// A disk of twenty blocks, of which those from 2 to 17 have 256 inodes. Inode 1 is a directory without blocks. Inode 2 is a
/// plain file of 5 bytes in block 18, inode 3 one without bytes, and each has a link. Block 19 is free, and the list of free
/// inodes is 4, 4.
static DISK: [Piece<'static>; 6] = [
    (512, b"\x10\x00\x14\x00\x02\x00\x00\x00\x13\x00"),
    (718, b"\x02\x00\x04\x00\x04\x00"),
    (1024, b"\xed\xc1\x02"),
    (1056, b"\xa4\x81\x01\x02\x03\x00\x05\x00\x12\x00"),
    (1088, b"\x80\x81\x01\x02\x03"),
    (9216, b"abcde"),
];

/// What is asked of a file system, and what must come of it.
#[derive(Clone, Copy)]
enum Step {
    /// A call at the time 0x01020304, and the number that it answers.
    Does(Call, u16),
    /// Once fifteen other blocks have been read, and so no buffer has the first block of inodes, these bytes stand at this
    /// place of the disk.
    Has(usize, &'static [u8]),
}

static ROWS: [&[Step]; 12] = [
    // A change is in memory alone. It stays there where one of two references is given back, and comes to the disk with the
    // last.
    &[
        Does(Take(2), 0),
        Does(Take(2), 0),
        Does(Mode(2, 0o100600), 0),
        Has(1056, b"\xa4\x81\x01"),
        Does(Put(2), 0),
        Has(1056, b"\xa4\x81\x01"),
        Does(Put(2), 0),
        Has(1056, b"\x80\x81\x01"),
    ],
    // An update writes it too, while something refers to it. What changes later is late again.
    &[
        Does(Take(2), 0),
        Does(Links(2, 7), 0),
        Has(1056, b"\xa4\x81\x01"),
        Does(Update, 0),
        Has(1056, b"\xa4\x81\x07"),
        Does(Links(2, 8), 0),
        Has(1056, b"\xa4\x81\x07"),
        Does(Put(2), 0),
        Has(1056, b"\xa4\x81\x08"),
    ],
    // It writes each that has changed, also behind one that has not.
    &[
        Does(Take(2), 0),
        Does(Take(1), 0),
        Does(Take(3), 0),
        Does(Owner(3, 9, 8), 0),
        Does(Owner(2, 5, 4), 0),
        Has(1056, b"\xa4\x81\x01\x02\x03"),
        Has(1088, b"\x80\x81\x01\x02\x03"),
        Does(Update, 0),
        Has(1024, b"\xed\xc1\x02\x00\x00"),
        Has(1056, b"\xa4\x81\x01\x05\x04"),
        Has(1088, b"\x80\x81\x01\x09\x08"),
    ],
    // A new inode is in memory alone too.
    &[
        Does(New(0o644, 1, 2), 4),
        Does(Links(4, 1), 0),
        Has(1120, b"\x00\x00\x00\x00\x00"),
        Does(Put(4), 0),
        Has(1120, b"\xa4\x81\x01\x01\x02"),
    ],
    &[
        Does(New(0o644, 1, 2), 4),
        Has(1120, b"\x00\x00\x00\x00\x00"),
        Does(Update, 0),
        Has(1120, b"\xa4\x81\x00\x01\x02"),
    ],
    // Its number is no free one, whatever its block says: the second 4 of the list is passed over. The list is then filled
    // with the first hundred free numbers, from 5 to 104.
    &[
        Does(New(0o644, 1, 2), 4),
        Has(1120, b"\x00\x00"),
        Does(New(0o600, 1, 2), 104),
        Does(New(0o600, 1, 2), 103),
    ],
    // Where it goes without a link, its number can be drawn again.
    &[
        Does(New(0o644, 1, 2), 4),
        Does(Put(4), 0),
        Has(1120, b"\x00\x00"),
        Does(New(0o600, 1, 2), 4),
    ],
    // A file without a link keeps its block while something refers to it, on the disk too. With the last reference it goes,
    // and block 18 is the first to be taken then.
    &[
        Does(Take(2), 0),
        Does(Take(2), 0),
        Does(Links(2, 0), 0),
        Does(Put(2), 0),
        Has(1056, b"\xa4\x81\x01"),
        Does(Update, 0),
        Has(1056, b"\xa4\x81\x00\x02\x03\x00\x05\x00\x12\x00"),
        Has(516, b"\x02\x00\x00\x00\x13\x00"),
        Does(Put(2), 0),
        Has(1056, b"\x00\x00"),
        Does(Update, 0),
        Has(516, b"\x03\x00\x00\x00\x13\x00\x12\x00"),
    ],
    // The size and the times of a file are late, its bytes are not.
    &[
        Does(Take(2), 0),
        Does(Write(2, 0, 7), 7),
        Has(1056, b"\xa4\x81\x01\x02\x03\x00\x05\x00\x12\x00"),
        Has(9216, b"\x04\x04\x04\x04\x04\x04\x04\x00"),
        Does(Put(2), 0),
        Has(1056, b"\xa4\x81\x01\x02\x03\x00\x07\x00\x12\x00"),
    ],
    &[
        Does(Take(2), 0),
        Does(Read(2, 0, 1), 1),
        Has(1080, b"\x00\x00\x00\x00\x00\x00\x00\x00"),
        Does(Put(2), 0),
        Has(1080, b"\x02\x01\x04\x03\x00\x00\x00\x00"),
    ],
    // A file that is truncated has its block on the disk still.
    &[
        Does(Take(2), 0),
        Does(Truncate(2), 0),
        Has(1056, b"\xa4\x81\x01\x02\x03\x00\x05\x00\x12\x00"),
        Does(Put(2), 0),
        Has(1056, b"\xa4\x81\x01\x02\x03\x00\x00\x00\x00\x00"),
    ],
    // The root is never freed.
    &[
        Does(Take(1), 0),
        Does(Links(1, 0), 0),
        Does(Put(1), 0),
        Has(1024, b"\xed\xc1\x00"),
    ],
];

/// Reads fifteen blocks of inodes, from 3 to 17.
fn reads_others(nodes: &mut Nodes) {
    for k in 0..15 {
        let _ = nodes.peek(17 + 16 * k);
    }
}

fn holds(nodes: &mut Nodes, step: Step) -> bool {
    match step {
        Does(call, number) => answer(nodes, call, 0x0102_0304) == (number, None),
        Has(at, bytes) => {
            reads_others(nodes);
            stands(nodes, at, bytes)
        }
    }
}

fn row_holds(alloc: Global, row: &[Step]) -> Result<bool, AllocError> {
    let mut image = [0; TWENTY_BLOCKS];
    put(&mut image, &DISK);
    let Some(mut nodes) = open(alloc, &image)? else {
        return Ok(false);
    };
    for step in row {
        if !holds(&mut nodes, *step) {
            return Ok(false);
        }
    }
    Ok(true)
}

#[test]
fn inodes_of_memory_come_late_to_the_disk(rt: HostRuntime) {
    for (k, row) in ROWS.iter().enumerate() {
        assert!(rt; row_holds(rt.alloc(), row).expect(&rt, "memory"), "row {k}");
    }
}
