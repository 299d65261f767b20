//! Pipes that a process makes, reads, writes and closes: pipe(II), read(II), write(II), close(II); Lions' Commentary, `pipe.c`.
use crate::system_calls::calls::Call::{
    Close, CloseAll, Creat, Dup, Fstat, Gtty, Open, Pipe, Read, Seek, Stty, Write,
};
use crate::system_calls::calls::Told::{Done, Fails, Gives, GivesTwo, WaitsIn};
use crate::system_calls::looks::Look;
use crate::system_calls::looks::Look::{
    Body, Counts, End, File, Gone, Inode, Logged, Memory, Number, Pending, Posted, Refs, Times,
};
use crate::system_calls::scenes::Step::{Does, Fresh, GoesOn, Has, Now, Opens, Posts, Puts, User};
use crate::system_calls::scenes::{Scene, failure};
use std::process::Abort;
use v6_base::Errno::{EBADF, EFAULT, EINTR, EMFILE, ENFILE, ENOSPC, ENOTTY, EPIPE, ESPIPE};
use v6_base::{Chan, Entry};

const T: u32 = 0x0005_0006;

/// Nothing waits.
const NOTHING: [u16; 8] = [0; 8];

/// The pipe is empty: 16 is the first inode that is drawn.
const EMPTY: Look = Inode(16, 0o100000, [0, 0, 0], 0);

/// Who waits for its bytes is woken, or who waits for room.
const READERS: Entry = Entry::Wake(Chan::Read(16));

const WRITERS: Entry = Entry::Wake(Chan::Write(16));

const MADE: [Scene; 9] = [
    Scene {
        name: "two ends of a plain file without a name",
        disk: &[],
        crowd: 0,
        steps: &[
            Does(Pipe, GivesTwo(0, 1)),
            Has(Number(0, 1)),
            Has(Number(1, 2)),
            Has(File(0, 16, 0, 1)),
            Has(File(1, 16, 0, 1)),
            Has(End(0, true)),
            Has(End(1, false)),
            Has(Refs(16, 2)),
            Has(EMPTY),
            Has(Times(16, T, T)),
            Has(Logged(&[])),
            Has(Counts(141, 10)),
            // Whoever makes it, it is user 0's and group 0's.
            User(9, 7),
            Now(9),
            Does(Pipe, GivesTwo(2, 3)),
            Has(Inode(21, 0o100000, [0, 0, 0], 0)),
            Has(Times(21, 9, 9)),
            Has(Refs(21, 2)),
            Has(Refs(16, 2)),
            Has(Counts(142, 10)),
        ],
    },
    Scene {
        name: "the lowest numbers and the lowest entries",
        disk: &[],
        crowd: 0,
        steps: &[
            Opens(3),
            Does(Close(1), Done),
            Does(Pipe, GivesTwo(1, 3)),
            Has(Number(1, 2)),
            Has(Number(3, 4)),
            Has(End(1, true)),
            Has(End(3, false)),
            Has(Refs(16, 2)),
            Has(Refs(3, 2)),
            Does(Close(0), Done),
            Does(Pipe, GivesTwo(0, 4)),
            Has(Number(0, 1)),
            Has(Number(4, 5)),
            Has(File(0, 21, 0, 1)),
            Has(File(4, 21, 0, 1)),
            Has(File(2, 3, 0, 1)),
        ],
    },
    Scene {
        // All of 15, 16, 20 and 21 are used.
        name: "no free inode for a pipe",
        disk: &[
            (1472, 0o100644),
            (1504, 0o100644),
            (1632, 0o100644),
            (1664, 0o100644),
        ],
        crowd: 0,
        steps: &[
            Does(Pipe, Fails(ENOSPC)),
            Has(Number(0, 0)),
            Has(Number(1, 0)),
            Has(Logged(&[])),
            Has(Counts(144, 10)),
            // It comes before the numbers.
            Opens(15),
            Does(Pipe, Fails(ENOSPC)),
            Has(Number(14, 15)),
            Has(Counts(144, 10)),
        ],
    },
    Scene {
        // The same, and a hundred inodes are referred to.
        name: "no free inode comes before the hundred that are referred to",
        disk: &[
            (1472, 0o100644),
            (1504, 0o100644),
            (1632, 0o100644),
            (1664, 0o100644),
        ],
        crowd: 99,
        steps: &[
            Does(Pipe, Fails(ENOSPC)),
            Has(Number(0, 0)),
            Has(Counts(144, 10)),
        ],
    },
    Scene {
        // Number 16 was drawn in vain, and then 21.
        name: "a hundred inodes are referred to",
        disk: &[],
        crowd: 98,
        steps: &[
            Opens(15),
            // It comes before the numbers.
            Does(Pipe, Fails(ENFILE)),
            Has(Gone(16)),
            Has(Refs(16, 0)),
            Has(Refs(3, 15)),
            Has(Counts(140, 10)),
            Does(CloseAll, Done),
            Does(Open(b"/null\0", 0), Gives(0)),
            Does(Pipe, Fails(ENFILE)),
            Has(Number(1, 0)),
            Has(Number(2, 0)),
            Has(Gone(21)),
            Has(Refs(6, 1)),
            Has(Counts(140, 10)),
        ],
    },
    Scene {
        // Two ends are two references to one inode.
        name: "the hundredth inode is a pipe's",
        disk: &[],
        crowd: 98,
        steps: &[
            Does(Pipe, GivesTwo(0, 1)),
            Has(Refs(16, 2)),
            Does(Pipe, Fails(ENFILE)),
            Has(Number(2, 0)),
            Has(Number(3, 0)),
            Has(File(0, 16, 0, 1)),
            Has(Refs(16, 2)),
            Has(Counts(141, 10)),
        ],
    },
    Scene {
        name: "fourteen and fifteen numbers",
        disk: &[],
        crowd: 0,
        steps: &[
            Opens(14),
            // The first end had a number, and the second has none.
            Does(Pipe, Fails(EMFILE)),
            Has(Number(14, 0)),
            Has(Gone(16)),
            Has(Refs(16, 0)),
            Has(Logged(&[])),
            Has(Counts(140, 10)),
            Does(Open(b"/f\0", 0), Gives(14)),
            Has(Number(14, 15)),
            Does(Pipe, Fails(EMFILE)),
            Has(Gone(16)),
            Has(Refs(16, 0)),
            Has(Refs(3, 15)),
            Has(Logged(&[])),
            Has(Counts(140, 10)),
            // With thirteen there are two, and the inode is the one that was drawn before.
            Does(Close(14), Done),
            Does(Close(3), Done),
            Does(Pipe, GivesTwo(3, 14)),
            Has(Number(3, 4)),
            Has(Number(14, 15)),
            Has(File(3, 16, 0, 1)),
            Has(File(14, 16, 0, 1)),
            Has(Refs(16, 2)),
        ],
    },
    Scene {
        name: "ninety-nine and a hundred open files",
        disk: &[],
        crowd: 0,
        steps: &[
            Opens(15),
            Fresh,
            Opens(15),
            Fresh,
            Opens(15),
            Fresh,
            Opens(15),
            Fresh,
            Opens(15),
            Fresh,
            Opens(15),
            Fresh,
            Opens(9),
            // The first end had the last entry, and the second has none.
            Does(Pipe, Fails(ENFILE)),
            Has(Number(9, 0)),
            Has(Number(10, 0)),
            Has(Gone(16)),
            Has(Refs(16, 0)),
            Has(Refs(3, 99)),
            Has(Logged(&[])),
            Does(Open(b"/f\0", 0), Gives(9)),
            Has(Number(9, 100)),
            Does(Pipe, Fails(ENFILE)),
            Has(Number(10, 0)),
            Has(Gone(16)),
            Has(Refs(16, 0)),
            Has(Refs(3, 100)),
            Has(Logged(&[])),
            Has(Counts(140, 10)),
            // With ninety-eight there are two.
            Does(Close(9), Done),
            Does(Close(4), Done),
            Does(Pipe, GivesTwo(4, 9)),
            Has(Number(4, 95)),
            Has(Number(9, 100)),
            Has(Refs(16, 2)),
        ],
    },
    Scene {
        // For each end the number comes first.
        name: "numbers and open files",
        disk: &[],
        crowd: 0,
        steps: &[
            Opens(15),
            Fresh,
            Opens(15),
            Fresh,
            Opens(15),
            Fresh,
            Opens(15),
            Fresh,
            Opens(15),
            Fresh,
            Opens(15),
            Fresh,
            Opens(9),
            Does(Dup(0), Gives(9)),
            Does(Dup(0), Gives(10)),
            Does(Dup(0), Gives(11)),
            Does(Dup(0), Gives(12)),
            Does(Dup(0), Gives(13)),
            // Fourteen numbers and ninety-nine open files: the second end has neither.
            Does(Pipe, Fails(EMFILE)),
            Has(Number(14, 0)),
            Does(Open(b"/f\0", 0), Gives(14)),
            Has(Number(14, 100)),
            Does(Pipe, Fails(EMFILE)),
            // Fourteen and a hundred: the first end has no entry.
            Does(Close(13), Done),
            Does(Pipe, Fails(ENFILE)),
            Has(Number(13, 0)),
            Has(Gone(16)),
            Has(Refs(16, 0)),
            Has(Refs(3, 100)),
            Has(Logged(&[])),
        ],
    },
];

const USED: [Scene; 9] = [
    Scene {
        name: "bytes go through a pipe",
        disk: &[],
        crowd: 0,
        steps: &[
            Does(Pipe, GivesTwo(0, 1)),
            Puts(200, b"hello"),
            Now(9),
            Does(Write(1, 200, 5), Gives(5)),
            Has(Inode(16, 0o100000, [0, 0, 0], 5)),
            Has(Body(16, 0, b"hello\0")),
            Has(Times(16, 9, 9)),
            // The place from which it is read is the pipe's own.
            Has(File(1, 16, 0, 1)),
            Now(10),
            Does(Read(0, 100, 3), Gives(3)),
            Has(Memory(99, b"chelgh")),
            Has(Times(16, 10, 9)),
            Has(File(0, 16, 0, 1)),
            // What is there is less than what was asked for.
            Does(Read(0, 300, 64), Gives(2)),
            Has(Memory(300, b"lo./")),
            Has(Inode(16, 0o100000, [0, 0, 0], 5)),
            Has(Logged(&[])),
            Has(Counts(141, 9)),
        ],
    },
    Scene {
        name: "a read waits for bytes",
        disk: &[],
        crowd: 0,
        steps: &[
            Does(Open(b"/f\0", 0), Gives(0)),
            Does(Pipe, GivesTwo(1, 2)),
            Does(Read(1, 100, 64), WaitsIn(Chan::Read(16))),
            Has(Pending(3, [1, 100, 64, 0, 0, 0, 0, 0])),
            Has(Times(16, T, T)),
            GoesOn(WaitsIn(Chan::Read(16))),
            Has(Pending(3, [1, 100, 64, 0, 0, 0, 0, 0])),
            Has(Logged(&[])),
            // A child, which has the same numbers, writes, and wakes it once.
            Does(Write(2, 10, 3), Gives(3)),
            Has(Logged(&[READERS])),
            Does(Write(2, 20, 2), Gives(2)),
            Has(Logged(&[])),
            Now(9),
            GoesOn(Gives(5)),
            Has(Memory(99, b"c\x0a\x0b\x0c\x14\x15i")),
            Has(Pending(0, NOTHING)),
            Has(Times(16, 9, T)),
            // A read of no byte waits too, but before any memory is looked at.
            Does(Read(1, 2000, 0), WaitsIn(Chan::Read(16))),
            Has(EMPTY),
            Has(Pending(3, [1, 2000, 0, 0, 0, 0, 0, 0])),
        ],
    },
    Scene {
        name: "a write waits for room",
        disk: &[],
        crowd: 0,
        steps: &[
            Does(Pipe, GivesTwo(0, 1)),
            Does(Write(1, 0, 1000), Gives(1000)),
            Does(Write(1, 0, 1000), Gives(1000)),
            Does(Write(1, 0, 1000), Gives(1000)),
            Does(Write(1, 0, 1000), Gives(1000)),
            // Of a hundred bytes four are left.
            Does(Write(1, 0, 100), WaitsIn(Chan::Write(16))),
            Has(Pending(4, [1, 0, 100, 4, 0, 0, 0, 0])),
            Has(Inode(16, 0o100000, [0, 0, 0], 4096)),
            Has(Counts(141, 2)),
            // There is no room before all has been read, and another read comes.
            Does(Read(0, 256, 1024), Gives(1024)),
            Does(Read(0, 256, 1024), Gives(1024)),
            Does(Read(0, 256, 1024), Gives(1024)),
            Does(Read(0, 256, 1024), Gives(1024)),
            Has(Logged(&[])),
            GoesOn(WaitsIn(Chan::Write(16))),
            Has(Pending(4, [1, 0, 100, 4, 0, 0, 0, 0])),
            Has(Inode(16, 0o100000, [0, 0, 0], 4096)),
            // A reader, which has a signal, wakes it, and counts as one that waits.
            Posts(15),
            Does(Read(0, 256, 9), Fails(EINTR)),
            Has(Logged(&[WRITERS])),
            Has(EMPTY),
            Has(Posted(15)),
            Posts(0),
            // The four bytes go in, and all that were asked for count.
            GoesOn(Gives(100)),
            Has(Logged(&[READERS])),
            Has(Inode(16, 0o100000, [0, 0, 0], 4)),
            Has(Body(16, 0, b"`abc")),
            Has(Pending(0, NOTHING)),
            // The file keeps its blocks.
            Has(Counts(141, 2)),
        ],
    },
    Scene {
        name: "a signal breaks what waits in a pipe",
        disk: &[],
        crowd: 0,
        steps: &[
            Does(Pipe, GivesTwo(0, 1)),
            Does(Read(0, 100, 9), WaitsIn(Chan::Read(16))),
            Posts(2),
            GoesOn(Fails(EINTR)),
            Has(Pending(0, NOTHING)),
            Has(Posted(2)),
            Has(Logged(&[])),
            Does(Read(0, 100, 9), Fails(EINTR)),
            Has(Pending(0, NOTHING)),
            // What doesn't wait isn't broken. The mark has stayed.
            Does(Write(1, 0, 3), Gives(3)),
            Has(Logged(&[READERS])),
            Does(Read(0, 100, 9), Gives(3)),
            Has(Memory(99, b"c\0\x01\x02g")),
        ],
    },
    Scene {
        name: "nobody reads",
        disk: &[],
        crowd: 0,
        steps: &[
            Does(Pipe, GivesTwo(0, 1)),
            Does(Write(1, 0, 3), Gives(3)),
            Does(Close(0), Done),
            Has(Logged(&[WRITERS, READERS])),
            Has(Number(0, 0)),
            Has(Refs(16, 1)),
            Does(Write(1, 0, 5), Fails(EPIPE)),
            Has(Logged(&[Entry::Signal { slot: 1, sig: 13 }])),
            Has(Posted(13)),
            Has(Inode(16, 0o100000, [0, 0, 0], 3)),
            Posts(0),
            // No memory is looked at. A write of nothing is done.
            Does(Write(1, 2000, 5), Fails(EPIPE)),
            Has(Posted(13)),
            Posts(0),
            Does(Write(1, 2000, 0), Gives(0)),
            Has(Posted(0)),
            Has(Logged(&[Entry::Signal { slot: 1, sig: 13 }])),
            Does(Close(1), Done),
            Has(Logged(&[WRITERS, READERS])),
            Has(Gone(16)),
            Has(Refs(16, 0)),
            Has(Counts(140, 10)),
        ],
    },
    Scene {
        // The reader ends while four bytes are left.
        name: "nobody reads what is left",
        disk: &[],
        crowd: 0,
        steps: &[
            Does(Pipe, GivesTwo(0, 1)),
            Does(Write(1, 0, 1000), Gives(1000)),
            Does(Write(1, 0, 1000), Gives(1000)),
            Does(Write(1, 0, 1000), Gives(1000)),
            Does(Write(1, 0, 1000), Gives(1000)),
            Does(Write(1, 0, 100), WaitsIn(Chan::Write(16))),
            Does(Close(0), Done),
            Has(Logged(&[WRITERS, READERS])),
            GoesOn(Fails(EPIPE)),
            Has(Logged(&[Entry::Signal { slot: 1, sig: 13 }])),
            Has(Posted(13)),
            Has(Pending(0, NOTHING)),
            Has(Inode(16, 0o100000, [0, 0, 0], 4096)),
        ],
    },
    Scene {
        name: "nobody writes",
        disk: &[],
        crowd: 0,
        steps: &[
            Does(Pipe, GivesTwo(0, 1)),
            Does(Write(1, 0, 5), Gives(5)),
            Does(Close(1), Done),
            Has(Logged(&[WRITERS, READERS])),
            // What was written is read, and then the file ends.
            Does(Read(0, 100, 3), Gives(3)),
            Has(Memory(100, b"\0\x01\x02g")),
            Does(Read(0, 200, 64), Gives(2)),
            Has(Memory(200, b"\x03\x04\xca")),
            Does(Read(0, 200, 64), Gives(0)),
            Has(EMPTY),
            Does(Read(0, 2000, 64), Gives(0)),
            Has(Logged(&[])),
            Does(Close(0), Done),
            Has(Logged(&[WRITERS, READERS])),
            Has(Gone(16)),
            // What was freed last is drawn first.
            Does(Creat(b"/new\0", 0o644), Gives(0)),
            Has(File(0, 16, 0, 1)),
        ],
    },
    Scene {
        name: "what an end is not for",
        disk: &[],
        crowd: 0,
        steps: &[
            Does(Pipe, GivesTwo(0, 1)),
            Does(Read(1, 2000, 5), Fails(EBADF)),
            Does(Write(0, 2000, 5), Fails(EBADF)),
            Does(Seek(0, 0, 0), Fails(ESPIPE)),
            Does(Seek(1, 9, 1), Fails(ESPIPE)),
            Does(Seek(1, 0, 9), Fails(ESPIPE)),
            Does(Seek(2, 0, 0), Fails(EBADF)),
            Does(Gtty(0, 2000), Fails(ENOTTY)),
            Does(Stty(1, 2000), Fails(ENOTTY)),
            Does(Write(1, 2000, 5), Fails(EFAULT)),
            Has(EMPTY),
            Has(Times(16, T, T)),
            Has(Posted(0)),
            Has(Logged(&[])),
            // It has the status of any file: its number, its mode, its links, its owners and its size.
            Does(Write(1, 0, 7), Gives(7)),
            Does(Fstat(0, 100), Done),
            Has(Memory(102, b"\x10\0\0\x80\0\0\0\0\x07\0")),
        ],
    },
    Scene {
        name: "each close of an end wakes, also of one that stays open",
        disk: &[],
        crowd: 0,
        steps: &[
            Does(Pipe, GivesTwo(0, 1)),
            Does(Dup(1), Gives(2)),
            Has(Logged(&[])),
            Has(File(2, 16, 0, 2)),
            Has(Refs(16, 2)),
            Does(Read(0, 100, 9), WaitsIn(Chan::Read(16))),
            Does(Close(1), Done),
            Has(Logged(&[WRITERS, READERS])),
            Has(File(2, 16, 0, 1)),
            Has(Refs(16, 2)),
            // The close took the mark: the write wakes nobody once more.
            Does(Write(2, 0, 3), Gives(3)),
            Has(Logged(&[])),
            GoesOn(Gives(3)),
            Does(Read(0, 100, 9), WaitsIn(Chan::Read(16))),
            Does(Pipe, GivesTwo(1, 3)),
            Has(File(1, 21, 0, 1)),
            Does(CloseAll, Done),
            Has(Logged(&[
                WRITERS,
                READERS,
                Entry::Wake(Chan::Write(21)),
                Entry::Wake(Chan::Read(21)),
                WRITERS,
                READERS,
                Entry::Wake(Chan::Write(21)),
                Entry::Wake(Chan::Read(21)),
            ])),
            Has(Gone(16)),
            Has(Gone(21)),
            Has(Counts(140, 10)),
        ],
    },
];

#[test]
fn pipes_are_made(rt: HostRuntime) {
    assert_eq!(rt; failure(rt.alloc(), &MADE).expect(&rt, "memory"), None);
}

#[test]
fn pipes_are_read_written_and_closed(rt: HostRuntime) {
    assert_eq!(rt; failure(rt.alloc(), &USED).expect(&rt, "memory"), None);
}
