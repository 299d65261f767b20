//! Numbers outside their ranges.
use crate::tell;
use log_text::{line, parse};
use v6_base::Chan::{Disk, Keys, KeysOf, Read, ShowOf, Wait, Write};
use v6_base::Entry::{
    Bare, Exit, Fork, Go, Image, Leave, Nice, Reap, Share, Signal, Size, SizeKeep, Sleep, SwapIn,
    SwapOut, Trap, Wake,
};
use v6_base::Place::Core;
use v6_base::{Entry, Place};

/// What is written of an entry with a number outside its range. It is no line.
static OUTSIDE: [(&[u8], Entry); 47] = [
    // A slot is at most 49.
    (b"go 50", Go(50)),
    (b"go 255", Go(255)),
    (b"trap 50", Trap(50)),
    (
        b"sleep 50 0 keys",
        Sleep {
            slot: 50,
            pri: 0,
            chan: Keys,
        },
    ),
    (b"signal 50 2", Signal { slot: 50, sig: 2 }),
    (b"nice 50 4", Nice { slot: 50, nice: 4 }),
    (
        b"size 50 1 at 1",
        Size {
            slot: 50,
            clicks: 1,
            place: Core(1),
        },
    ),
    (
        b"size 50 1 keep",
        SizeKeep {
            slot: 50,
            clicks: 1,
        },
    ),
    (
        b"fork 50 1 at 1",
        Fork {
            slot: 50,
            child: 1,
            place: Core(1),
        },
    ),
    (
        b"fork 1 50 at 1",
        Fork {
            slot: 1,
            child: 50,
            place: Core(1),
        },
    ),
    (
        b"drop 50 1 plain",
        Leave {
            slot: 50,
            text: 1,
            sticky: false,
        },
    ),
    (b"bare 50", Bare(50)),
    (
        b"text 50 1 1 swap 4000",
        Entry::Text {
            slot: 50,
            text: 1,
            clicks: 1,
            block: 4000,
        },
    ),
    (b"share 50 1", Share { slot: 50, text: 1 }),
    (
        b"image 50 1 at 1",
        Image {
            slot: 50,
            clicks: 1,
            place: Core(1),
        },
    ),
    (b"in 50 1", SwapIn { slot: 50, at: 1 }),
    (
        b"out 50 4000",
        SwapOut {
            slot: 50,
            block: 4000,
        },
    ),
    (
        b"exit 50 swap 4000",
        Exit {
            slot: 50,
            block: 4000,
        },
    ),
    (b"reap 50", Reap(50)),
    (b"wake wait.50", Wake(Wait(50))),
    (b"wake disk.50", Wake(Disk(50))),
    // A terminal line beside the console is 1 to 7.
    (b"wake keys.0", Wake(KeysOf(0))),
    (b"wake keys.8", Wake(KeysOf(8))),
    (b"wake show.0", Wake(ShowOf(0))),
    (b"wake show.8", Wake(ShowOf(8))),
    (
        b"sleep 1 40 wait.255",
        Sleep {
            slot: 1,
            pri: 40,
            chan: Wait(255),
        },
    ),
    // An inode is at least 1.
    (b"wake read.0", Wake(Read(0))),
    (b"wake write.0", Wake(Write(0))),
    (
        b"sleep 1 1 read.0",
        Sleep {
            slot: 1,
            pri: 1,
            chan: Read(0),
        },
    ),
    // A signal is from 1 to 19.
    (b"signal 1 0", Signal { slot: 1, sig: 0 }),
    (b"signal 1 20", Signal { slot: 1, sig: 20 }),
    (b"signal 1 255", Signal { slot: 1, sig: 255 }),
    // A text is at most 39.
    (
        b"drop 1 40 sticky",
        Leave {
            slot: 1,
            text: 40,
            sticky: true,
        },
    ),
    (
        b"text 1 40 1 swap 4000",
        Entry::Text {
            slot: 1,
            text: 40,
            clicks: 1,
            block: 4000,
        },
    ),
    (b"share 1 40", Share { slot: 1, text: 40 }),
    // A block of the swap area is from 4000 to 4871.
    (
        b"size 1 40 swap 3999",
        Size {
            slot: 1,
            clicks: 40,
            place: Place::Swap(3999),
        },
    ),
    (
        b"size 1 40 swap 4872",
        Size {
            slot: 1,
            clicks: 40,
            place: Place::Swap(4872),
        },
    ),
    (
        b"fork 1 2 swap 3999",
        Fork {
            slot: 1,
            child: 2,
            place: Place::Swap(3999),
        },
    ),
    (
        b"fork 1 2 swap 4872",
        Fork {
            slot: 1,
            child: 2,
            place: Place::Swap(4872),
        },
    ),
    (
        b"image 1 2 swap 3999",
        Image {
            slot: 1,
            clicks: 2,
            place: Place::Swap(3999),
        },
    ),
    (
        b"image 1 2 swap 4872",
        Image {
            slot: 1,
            clicks: 2,
            place: Place::Swap(4872),
        },
    ),
    (
        b"text 1 2 3 swap 3999",
        Entry::Text {
            slot: 1,
            text: 2,
            clicks: 3,
            block: 3999,
        },
    ),
    (
        b"text 1 2 3 swap 4872",
        Entry::Text {
            slot: 1,
            text: 2,
            clicks: 3,
            block: 4872,
        },
    ),
    (
        b"out 1 3999",
        SwapOut {
            slot: 1,
            block: 3999,
        },
    ),
    (
        b"out 1 4872",
        SwapOut {
            slot: 1,
            block: 4872,
        },
    ),
    (
        b"exit 1 swap 3999",
        Exit {
            slot: 1,
            block: 3999,
        },
    ),
    (
        b"exit 1 swap 65535",
        Exit {
            slot: 1,
            block: 65_535,
        },
    ),
];

fn holds(bytes: &[u8], entry: &Entry) -> bool {
    line(entry).as_slice() == bytes && parse(bytes).is_none()
}

#[test]
fn numbers_have_their_ranges(rt: HostRuntime) {
    for (i, row) in OUTSIDE.iter().enumerate() {
        tell::plain_row(&rt, i, holds(row.0, &row.1));
    }
}
