//! Fifteen buffers before the disk: docs/manual/blocks.md, "The buffers".
use Step::{Change, Read, Sync};
use buf_cache::{Cache, Disk};
use std::alloc::{AllocError, Global};

/// A call on each of some blocks, one after the other: from the first of these numbers up to below the second.
#[derive(Clone, Copy)]
enum Step {
    /// Puts a byte at the front of the block.
    Change(u16, u16, u8),
    Read(u16, u16),
    Sync,
}

/// Steps on a disk whose blocks begin with dots; how the blocks from 0 on must begin on the disk then; and how they must begin
/// when they are read.
type Row = (&'static [Step], &'static [u8], &'static [u8]);

static ROWS: [Row; 14] = [
    // fifteen have room, and none is written
    (
        &[Change(0, 15, b'a')],
        b"...............",
        b"aaaaaaaaaaaaaaa",
    ),
    // of sixteen that are changed, one after the other, the first is written and no other
    (
        &[Change(0, 16, b'a')],
        b"a...............",
        b"aaaaaaaaaaaaaaaa",
    ),
    // and a sync writes them all
    (
        &[Change(0, 16, b'a'), Sync],
        b"aaaaaaaaaaaaaaaa",
        b"aaaaaaaaaaaaaaaa",
    ),
    // also where all sixteen are read before
    (
        &[Change(0, 16, b'a'), Read(0, 16), Sync],
        b"aaaaaaaaaaaaaaaa",
        b"aaaaaaaaaaaaaaaa",
    ),
    // a block that is only read takes a buffer too
    (
        &[Change(0, 15, b'a'), Read(15, 16)],
        b"a...............",
        b"aaaaaaaaaaaaaaa.",
    ),
    (
        &[Read(0, 15), Change(15, 16, b'a')],
        b"................",
        b"...............a",
    ),
    // a block that is read again, or changed again, is the one that was used last
    (
        &[Change(0, 15, b'a'), Read(0, 1), Change(15, 16, b'a')],
        b".a..............",
        b"aaaaaaaaaaaaaaaa",
    ),
    (
        &[
            Change(0, 15, b'a'),
            Change(0, 1, b'b'),
            Change(15, 16, b'a'),
        ],
        b".a..............",
        b"baaaaaaaaaaaaaaa",
    ),
    // so those go first that are left out
    (
        &[
            Change(0, 15, b'a'),
            Read(5, 10),
            Read(2, 3),
            Change(15, 21, b'a'),
        ],
        b"aa.aa.....aa.........",
        b"aaaaaaaaaaaaaaaaaaaaa",
    ),
    // all are read again in their order, which is then the same
    (
        &[Change(0, 15, b'a'), Read(0, 15), Read(15, 17)],
        b"aa...............",
        b"aaaaaaaaaaaaaaa..",
    ),
    // the block in front is read twice
    (
        &[
            Change(0, 15, b'a'),
            Read(14, 15),
            Read(14, 15),
            Read(15, 16),
        ],
        b"a...............",
        b"aaaaaaaaaaaaaaa.",
    ),
    // a block that has gone comes back as it was, and another goes
    (
        &[Change(0, 16, b'a'), Read(0, 1)],
        b"aa..............",
        b"aaaaaaaaaaaaaaaa",
    ),
    // a block that changes after a sync is written when fifteen others have been used since, and not before
    (
        &[Change(0, 15, b'a'), Sync, Change(3, 4, b'b'), Read(15, 29)],
        b"aaaaaaaaaaaaaaa",
        b"aaabaaaaaaaaaaa",
    ),
    (
        &[Change(0, 15, b'a'), Sync, Change(3, 4, b'b'), Read(15, 30)],
        b"aaabaaaaaaaaaaa",
        b"aaabaaaaaaaaaaa",
    ),
];

static DOTS: [u8; 15360] = [b'.'; 15360];

fn take(cache: &mut Cache, step: Step) {
    match step {
        Change(from, to, byte) => {
            for n in from..to {
                if n < 4872 {
                    cache.change(n, 0, &[byte]);
                }
            }
        }
        Read(from, to) => {
            for n in from..to {
                if n < 4872 {
                    let _ = cache.block(n);
                }
            }
        }
        Sync => cache.sync(),
    }
}

fn after(alloc: Global, steps: &[Step]) -> Result<Cache, AllocError> {
    let mut cache = Cache::new(alloc, Disk::from_bytes(alloc, &DOTS)?)?;
    for step in steps {
        take(&mut cache, *step);
    }
    Ok(cache)
}

/// Whether the blocks begin so on the disk.
fn are_on_disk(cache: &Cache, bytes: &[u8]) -> bool {
    for (n, byte) in bytes.iter().enumerate() {
        if n >= 4872 || cache.on_disk(n as u16)[0] != *byte {
            return false;
        }
    }
    true
}

/// Whether the blocks begin so when they are read.
fn are_read(cache: &mut Cache, bytes: &[u8]) -> bool {
    for (n, byte) in bytes.iter().enumerate() {
        if n >= 4872 || cache.block(n as u16)[0] != *byte {
            return false;
        }
    }
    true
}

#[test]
fn blocks_reach_the_disk_as_their_buffers_are_used_again(rt: HostRuntime) {
    for (k, (steps, disk, blocks)) in ROWS.iter().enumerate() {
        let mut cache = after(rt.alloc(), steps).expect(&rt, "memory");
        assert!(rt; are_on_disk(&cache, disk), "row {k}");
        assert!(rt; are_read(&mut cache, blocks), "row {k}");
    }
}
