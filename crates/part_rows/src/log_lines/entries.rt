//! Each line, and its entry.
use crate::tell;
use log_text::{line, parse};
use v6_base::Chan::{Disk, Keys, KeysOf, Read, RunIn, RunOut, Show, ShowOf, Tout, Wait, Write};
use v6_base::Entry::{
    Bare, Boot, End, Exit, Fork, Go, Idle, Image, Leave, Nice, Panic, Reap, Share, Signal, Size,
    SizeKeep, Sleep, SwapIn, SwapOut, TickIdle, TickKernel, TickUser, Time, Trap, Wake,
};
use v6_base::PanicKind::Zombie;
use v6_base::Place::Core;
use v6_base::{Entry, PanicKind, Place};

/// A line and its entry.
static LINES: [(&[u8], Entry); 83] = [
    // The system begins, with clicks of core and a time in seconds.
    (
        b"boot 1200 0",
        Boot {
            core: 1200,
            time: 0,
        },
    ),
    (b"boot 0 1", Boot { core: 0, time: 1 }),
    (
        b"boot 65535 4294967295",
        Boot {
            core: 65_535,
            time: 4_294_967_295,
        },
    ),
    // A process is chosen, or none; its turn ends.
    (b"go 0", Go(0)),
    (b"go 7", Go(7)),
    (b"go 49", Go(49)),
    (b"idle", Idle),
    (b"trap 0", Trap(0)),
    (b"trap 10", Trap(10)),
    (b"trap 49", Trap(49)),
    // A tick, while a program runs, the kernel, or nobody.
    (b"tick u", TickUser),
    (b"tick k", TickKernel),
    (b"tick i", TickIdle),
    // Sleeping and waking, on each channel.
    (
        b"sleep 0 -100 runin",
        Sleep {
            slot: 0,
            pri: -100,
            chan: RunIn,
        },
    ),
    (
        b"sleep 0 -100 runout",
        Sleep {
            slot: 0,
            pri: -100,
            chan: RunOut,
        },
    ),
    (
        b"sleep 49 127 tout",
        Sleep {
            slot: 49,
            pri: 127,
            chan: Tout,
        },
    ),
    (
        b"sleep 1 -128 keys",
        Sleep {
            slot: 1,
            pri: -128,
            chan: Keys,
        },
    ),
    (
        b"sleep 2 40 wait.0",
        Sleep {
            slot: 2,
            pri: 40,
            chan: Wait(0),
        },
    ),
    (
        b"sleep 2 40 wait.49",
        Sleep {
            slot: 2,
            pri: 40,
            chan: Wait(49),
        },
    ),
    (
        b"sleep 3 1 read.19",
        Sleep {
            slot: 3,
            pri: 1,
            chan: Read(19),
        },
    ),
    (
        b"sleep 3 0 write.19",
        Sleep {
            slot: 3,
            pri: 0,
            chan: Write(19),
        },
    ),
    (b"wake runin", Wake(RunIn)),
    (b"wake runout", Wake(RunOut)),
    (b"wake tout", Wake(Tout)),
    (b"wake keys", Wake(Keys)),
    (b"wake wait.0", Wake(Wait(0))),
    (b"wake wait.49", Wake(Wait(49))),
    (b"wake show", Wake(Show)),
    (b"wake keys.1", Wake(KeysOf(1))),
    (b"wake keys.7", Wake(KeysOf(7))),
    (b"wake show.1", Wake(ShowOf(1))),
    (b"wake show.7", Wake(ShowOf(7))),
    (b"wake disk.0", Wake(Disk(0))),
    (b"wake disk.49", Wake(Disk(49))),
    (
        b"sleep 2 -50 disk.2",
        Sleep {
            slot: 2,
            pri: -50,
            chan: Disk(2),
        },
    ),
    (b"wake read.1", Wake(Read(1))),
    (b"wake read.65535", Wake(Read(65_535))),
    (b"wake write.1", Wake(Write(1))),
    (b"wake write.65535", Wake(Write(65_535))),
    // Signals, from 1 to 19, what nice(II) adds, and the time.
    (b"signal 0 1", Signal { slot: 0, sig: 1 }),
    (b"signal 49 19", Signal { slot: 49, sig: 19 }),
    (
        b"nice 0 -128",
        Nice {
            slot: 0,
            nice: -128,
        },
    ),
    (
        b"nice 49 127",
        Nice {
            slot: 49,
            nice: 127,
        },
    ),
    (b"nice 1 0", Nice { slot: 1, nice: 0 }),
    (b"nice 1 -1", Nice { slot: 1, nice: -1 }),
    (b"time 0", Time(0)),
    (b"time 4294967295", Time(4_294_967_295)),
    // An image grows and takes a place, or keeps its own.
    (
        b"size 0 0 at 0",
        Size {
            slot: 0,
            clicks: 0,
            place: Core(0),
        },
    ),
    (
        b"size 49 65535 at 65535",
        Size {
            slot: 49,
            clicks: 65_535,
            place: Core(65_535),
        },
    ),
    (
        b"size 1 40 swap 4000",
        Size {
            slot: 1,
            clicks: 40,
            place: Place::Swap(4000),
        },
    ),
    (
        b"size 1 40 swap 4871",
        Size {
            slot: 1,
            clicks: 40,
            place: Place::Swap(4871),
        },
    ),
    (b"size 0 0 keep", SizeKeep { slot: 0, clicks: 0 }),
    (
        b"size 49 65535 keep",
        SizeKeep {
            slot: 49,
            clicks: 65_535,
        },
    ),
    // A child in a slot, and at a place.
    (
        b"fork 1 2 at 41",
        Fork {
            slot: 1,
            child: 2,
            place: Core(41),
        },
    ),
    (
        b"fork 0 49 at 0",
        Fork {
            slot: 0,
            child: 49,
            place: Core(0),
        },
    ),
    (
        b"fork 49 0 at 65535",
        Fork {
            slot: 49,
            child: 0,
            place: Core(65_535),
        },
    ),
    (
        b"fork 1 2 swap 4000",
        Fork {
            slot: 1,
            child: 2,
            place: Place::Swap(4000),
        },
    ),
    (
        b"fork 1 2 swap 4871",
        Fork {
            slot: 1,
            child: 2,
            place: Place::Swap(4871),
        },
    ),
    // Texts and exec's image.
    (
        b"drop 0 0 plain",
        Leave {
            slot: 0,
            text: 0,
            sticky: false,
        },
    ),
    (
        b"drop 49 39 sticky",
        Leave {
            slot: 49,
            text: 39,
            sticky: true,
        },
    ),
    (b"bare 0", Bare(0)),
    (b"bare 49", Bare(49)),
    (
        b"text 0 0 0 swap 4000",
        Entry::Text {
            slot: 0,
            text: 0,
            clicks: 0,
            block: 4000,
        },
    ),
    (
        b"text 49 39 65535 swap 4871",
        Entry::Text {
            slot: 49,
            text: 39,
            clicks: 65_535,
            block: 4871,
        },
    ),
    (b"share 0 0", Share { slot: 0, text: 0 }),
    (b"share 49 39", Share { slot: 49, text: 39 }),
    (
        b"image 1 37 at 1",
        Image {
            slot: 1,
            clicks: 37,
            place: Core(1),
        },
    ),
    (
        b"image 0 0 at 0",
        Image {
            slot: 0,
            clicks: 0,
            place: Core(0),
        },
    ),
    (
        b"image 49 65535 at 65535",
        Image {
            slot: 49,
            clicks: 65_535,
            place: Core(65_535),
        },
    ),
    (
        b"image 1 37 swap 4000",
        Image {
            slot: 1,
            clicks: 37,
            place: Place::Swap(4000),
        },
    ),
    (
        b"image 1 37 swap 4871",
        Image {
            slot: 1,
            clicks: 37,
            place: Place::Swap(4871),
        },
    ),
    // Images go in and out.
    (b"in 0 0", SwapIn { slot: 0, at: 0 }),
    (
        b"in 49 65535",
        SwapIn {
            slot: 49,
            at: 65_535,
        },
    ),
    (
        b"out 0 4000",
        SwapOut {
            slot: 0,
            block: 4000,
        },
    ),
    (
        b"out 49 4871",
        SwapOut {
            slot: 49,
            block: 4871,
        },
    ),
    // A process ends, and is waited for.
    (
        b"exit 0 swap 4000",
        Exit {
            slot: 0,
            block: 4000,
        },
    ),
    (
        b"exit 49 swap 4871",
        Exit {
            slot: 49,
            block: 4871,
        },
    ),
    (b"reap 0", Reap(0)),
    (b"reap 49", Reap(49)),
    // Last lines.
    (b"panic swap", Panic(PanicKind::Swap)),
    (b"panic zombie", Panic(Zombie)),
    (b"panic text", Panic(PanicKind::Text)),
    (b"end", End),
];

fn holds(bytes: &[u8], entry: &Entry) -> bool {
    line(entry).as_slice() == bytes && parse(bytes) == Some(*entry)
}

#[test]
fn entries_are_written_and_read(rt: HostRuntime) {
    for (i, row) in LINES.iter().enumerate() {
        tell::plain_row(&rt, i, holds(row.0, &row.1));
    }
}
