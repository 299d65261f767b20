//! Reads and writes of a pipe, by hand from pipe(II), read(II) and write(II), and from readp and writep of Lions' Commentary,
//! `pipe.c`: a pipe is full with 4,096 bytes, begins from its front again where all has been read, and has two ends.
use self::Call::{Close, Read, Write};
use self::Waits::{Nobody, Reader, Writer};
use crate::file_system::fixtures::{Word, image_of};
use crate::file_system::opened::{open, takes};
use fs_nodes::Nodes;
use pipe_ends::Piped::{Broken, Done, Error, Wait};
use pipe_ends::{Pipe, Piped, read, write};
use std::alloc::{AllocError, Global};
use std::process::Abort;
use v6_base::{Errno, Space, Whole};

/// Twenty blocks: inode 1 is a directory that holds block 3, and inode 2 a plain file without a block and without a name.
/// `nfree` is at 516 and its numbers from 518 on: blocks 15, 14 and so on to 4 are taken in this order. Inode 2 is at 1056: its
/// mode comes first.
static DISK: [Word; 18] = [
    (512, 1),
    (514, 20),
    (516, 13),
    (520, 4),
    (522, 5),
    (524, 6),
    (526, 7),
    (528, 8),
    (530, 9),
    (532, 10),
    (534, 11),
    (536, 12),
    (538, 13),
    (540, 14),
    (542, 15),
    (1024, 0o140755),
    (1032, 3),
    (1056, 0o100000),
];

/// The bytes of the memory, in clicks.
const CLICKS: u16 = 188;

/// The first address that names nothing.
const END: u16 = 64 * CLICKS;

/// A byte of what is written, by its address. No two blocks of them are the same.
fn byte_at(at: u16) -> u8 {
    (at % 251) as u8
}

fn memory(alloc: Global) -> Result<Whole, AllocError> {
    let mut space = Whole::new(alloc)?;
    space.set_sizes(0, CLICKS, 0);
    for at in 0..END {
        let _ = space.store_byte(at, byte_at(at));
    }
    Ok(space)
}

/// What is done with the pipe: bytes are read to or written from an address, so many, or an end of it is closed.
#[derive(Clone, Copy)]
enum Call {
    Read(u16, u16),
    Write(u16, u16),
    Close,
}

/// Who waits for the pipe. It can't be both.
#[derive(Clone, Copy)]
enum Waits {
    Nobody,
    Reader,
    Writer,
}

/// A call and its answer; how many bytes the file has then and how many of them have been read; and who waits.
type Step = (Call, Piped, u32, u32, Waits);

/// Words of the disk that are changed before, and the steps.
#[derive(Clone, Copy)]
struct Scene {
    disk: &'static [Word],
    steps: &'static [Step],
}

static SCENES: [Scene; 13] = [
    // The reader waits for bytes, and is woken by the first of them. It reads what is there, and less than it asked for.
    Scene {
        disk: &[],
        steps: &[
            (Read(0, 10), Wait { left: 10 }, 0, 0, Reader),
            (Write(100, 3), Done(3), 3, 0, Nobody),
            (Read(0, 10), Done(3), 3, 3, Nobody),
            (Read(0, 10), Wait { left: 10 }, 0, 0, Reader),
        ],
    },
    // 4,096 bytes are room enough, and one more waits.
    Scene {
        disk: &[],
        steps: &[
            (Write(0, 4096), Done(4096), 4096, 0, Nobody),
            (Write(0, 0), Done(0), 4096, 0, Nobody),
            (Write(0, 1), Wait { left: 1 }, 4096, 0, Writer),
        ],
    },
    // Of 4,097 bytes one is left. The writer is not woken before all has been read, and there is no room before.
    Scene {
        disk: &[],
        steps: &[
            (Write(0, 4097), Wait { left: 1 }, 4096, 0, Writer),
            (Read(0, 4095), Done(4095), 4096, 4095, Writer),
            (Write(0, 9), Wait { left: 9 }, 4096, 4095, Writer),
            (Read(0, 4095), Done(1), 4096, 4096, Writer),
            (Write(0, 9), Wait { left: 9 }, 4096, 4096, Writer),
            (Read(0, 4095), Wait { left: 4095 }, 0, 0, Reader),
            (Write(4096, 1), Done(1), 1, 0, Nobody),
        ],
    },
    // What fits is counted by what the file has, and not by what is still to be read.
    Scene {
        disk: &[],
        steps: &[
            (Write(0, 4000), Done(4000), 4000, 0, Nobody),
            (Read(0, 3000), Done(3000), 4000, 3000, Nobody),
            (Write(0, 100), Wait { left: 4 }, 4096, 3000, Writer),
        ],
    },
    // A reader is woken by a write that then waits itself.
    Scene {
        disk: &[],
        steps: &[
            (Read(0, 10), Wait { left: 10 }, 0, 0, Reader),
            (Write(0, 5000), Wait { left: 904 }, 4096, 0, Writer),
        ],
    },
    // The reader ends without reading.
    Scene {
        disk: &[],
        steps: &[
            (Write(0, 4097), Wait { left: 1 }, 4096, 0, Writer),
            (Close, Done(0), 4096, 0, Nobody),
            (Write(4096, 1), Broken, 4096, 0, Nobody),
            (Write(4096, 0), Done(0), 4096, 0, Nobody),
        ],
    },
    // With one end nothing is written, also where there is room.
    Scene {
        disk: &[],
        steps: &[
            (Close, Done(0), 0, 0, Nobody),
            (Write(0, 1), Broken, 0, 0, Nobody),
            (Write(0, 0), Done(0), 0, 0, Nobody),
        ],
    },
    // The writer ends: what it wrote can still be read, and then the file ends.
    Scene {
        disk: &[],
        steps: &[
            (Write(0, 5), Done(5), 5, 0, Nobody),
            (Close, Done(0), 5, 0, Nobody),
            (Read(9, 4), Done(4), 5, 4, Nobody),
            (Read(9, 4), Done(1), 5, 5, Nobody),
            (Read(9, 4), Done(0), 0, 0, Nobody),
            (Read(9, 4), Done(0), 0, 0, Nobody),
        ],
    },
    // A read of nothing waits for bytes too, and does not wait with bytes there.
    Scene {
        disk: &[],
        steps: &[
            (Read(0, 0), Wait { left: 0 }, 0, 0, Reader),
            (Write(0, 1), Done(1), 1, 0, Nobody),
            (Read(0, 0), Done(0), 1, 0, Nobody),
        ],
    },
    // The memory ends after 600 bytes: a block of them is written, and the reader is woken.
    Scene {
        disk: &[],
        steps: &[
            (Read(0, 1), Wait { left: 1 }, 0, 0, Reader),
            (Write(END - 600, 1000), Error(Errno::EFAULT), 512, 0, Nobody),
            (Write(END, 1), Error(Errno::EFAULT), 512, 0, Nobody),
            (Read(END, 1), Error(Errno::EFAULT), 512, 0, Nobody),
            (Read(0, 512), Done(512), 512, 512, Nobody),
            (Read(0, 1), Wait { left: 1 }, 0, 0, Reader),
            (Write(END, 1), Error(Errno::EFAULT), 0, 0, Nobody),
        ],
    },
    // The same of a read: it moves on by a block.
    Scene {
        disk: &[],
        steps: &[
            (Write(0, 1000), Done(1000), 1000, 0, Nobody),
            (
                Read(END - 600, 1000),
                Error(Errno::EFAULT),
                1000,
                512,
                Nobody,
            ),
            (Read(0, 1000), Done(488), 1000, 1000, Nobody),
        ],
    },
    // With the pipe full a fault is not met, and with no reader it isn't either.
    Scene {
        disk: &[],
        steps: &[
            (Write(0, 4096), Done(4096), 4096, 0, Nobody),
            (Write(END, 1), Wait { left: 1 }, 4096, 0, Writer),
            (Close, Done(0), 4096, 0, Nobody),
            (Write(END, 1), Broken, 4096, 0, Nobody),
        ],
    },
    // The disk has two blocks more, 5 and 4. What was written stays, and the file keeps its blocks where it begins again.
    Scene {
        disk: &[(516, 3)],
        steps: &[
            (Read(0, 1), Wait { left: 1 }, 0, 0, Reader),
            (Write(0, 4096), Error(Errno::ENOSPC), 1024, 0, Nobody),
            (Write(0, 1), Error(Errno::ENOSPC), 1024, 0, Nobody),
            (Read(0, 4096), Done(1024), 1024, 1024, Nobody),
            (Read(0, 1), Wait { left: 1 }, 0, 0, Reader),
            (Write(0, 1024), Done(1024), 1024, 0, Nobody),
        ],
    },
];

/// A pipe with two ends on a disk, and the memory of who reads and writes.
#[derive(Drop)]
struct Plumbing {
    nodes: Nodes,
    pipe: Pipe,
    space: Whole,
}

fn two_ends(alloc: Global, changed: &[Word]) -> Result<Option<Plumbing>, AllocError> {
    let Some(mut nodes) = open(alloc, &image_of(&DISK, changed))? else {
        return Ok(None);
    };
    if !takes(&mut nodes, 2) || !takes(&mut nodes, 2) {
        return Ok(None);
    }
    let pipe = Pipe {
        ino: 2,
        offset: 0,
        reader_waits: false,
        writer_waits: false,
    };
    let space = memory(alloc)?;
    Ok(Some(Plumbing { nodes, pipe, space }))
}

/// Does a call at a time. A close forgets both marks, and leaves the other end.
fn carry_out(p: &mut Plumbing, call: Call, time: u32) -> Option<Piped> {
    if p.nodes.refs(p.pipe.ino) == 0 {
        return None;
    }
    match call {
        Read(at, count) => Some(read(&mut p.nodes, &mut p.pipe, &mut p.space, at, count, time)),
        Write(at, count) => Some(write(&mut p.nodes, &mut p.pipe, &p.space, at, count, time)),
        Close => {
            p.nodes.put(p.pipe.ino, time);
            p.pipe.reader_waits = false;
            p.pipe.writer_waits = false;
            Some(Done(0))
        }
    }
}

fn holds(p: &mut Plumbing, step: &Step) -> bool {
    let (call, answer, size, offset, waits) = *step;
    if carry_out(p, call, 9) != Some(answer) {
        return false;
    }
    let pipe = Pipe {
        ino: 2,
        offset,
        reader_waits: matches!(waits, Reader),
        writer_waits: matches!(waits, Writer),
    };
    p.pipe == pipe && p.nodes.refs(2) > 0 && p.nodes.node(2).size == size
}

/// The number of the first step of a scene that does not hold.
fn failure(alloc: Global, scene: &Scene) -> Result<Option<usize>, AllocError> {
    let Some(mut p) = two_ends(alloc, scene.disk)? else {
        return Ok(Some(usize::MAX));
    };
    for (k, step) in scene.steps.iter().enumerate() {
        if !holds(&mut p, step) {
            return Ok(Some(k));
        }
    }
    Ok(None)
}

#[test]
fn a_pipe_is_read_and_written(rt: HostRuntime) {
    for (k, scene) in SCENES.iter().enumerate() {
        let step = failure(rt.alloc(), scene).expect(&rt, "memory");
        assert!(rt; step.is_none(), "scene {k}, step {step:?}");
    }
}

/// A call and its time, and the file's times of access and of change after it.
static TIMES: [(Call, u32, u32, u32); 7] = [
    (Read(0, 4), 7, 0, 0),
    (Write(0, 4), 8, 8, 8),
    (Write(0, 0), 9, 8, 8),
    (Read(0, 2), 10, 10, 8),
    (Read(0, 0), 11, 10, 8),
    (Read(0, 9), 12, 12, 8),
    (Read(0, 9), 13, 12, 8),
];

fn keeps_time(alloc: Global) -> Result<bool, AllocError> {
    let Some(mut p) = two_ends(alloc, &[])? else {
        return Ok(false);
    };
    for (call, now, access, change) in TIMES.iter() {
        let _ = carry_out(&mut p, *call, *now);
        if p.nodes.refs(2) == 0 {
            return Ok(false);
        }
        let node = p.nodes.node(2);
        if node.actime != *access || node.modtime != *change {
            return Ok(false);
        }
    }
    Ok(true)
}

#[test]
fn each_read_and_each_append_sets_its_times(rt: HostRuntime) {
    assert!(rt; keeps_time(rt.alloc()).expect(&rt, "memory"));
}

/// Reads 700 bytes at most to the end of the memory, and tells how many there were, where they are those that come after `done`.
fn reads_on(p: &mut Plumbing, done: u16) -> Option<u16> {
    match carry_out(p, Read(11_000, 700), 9)? {
        Done(n) => {
            for i in 0..n {
                let byte = byte_at(done.wrapping_add(i));
                if p.space.load_byte(11_000u16.wrapping_add(i)) != Ok(byte) {
                    return None;
                }
            }
            Some(n)
        }
        Wait { left: 700 } => Some(0),
        _ => None,
    }
}

/// Writes on what is left of 10,000 bytes, and tells how many are left then.
fn writes_on(p: &mut Plumbing, left: u16) -> Option<u16> {
    let from = 10_000u16.wrapping_sub(left);
    match carry_out(p, Write(from, left), 9)? {
        Done(_) => Some(0),
        Wait { left } => Some(left),
        _ => None,
    }
}

/// A writer of 10,000 bytes that goes on whenever it is woken, and a reader that goes on. All are read, in order.
fn passes(p: &mut Plumbing) -> Option<()> {
    let mut left: u16 = 10_000;
    let mut done: u16 = 0;
    for _ in 0..100 {
        if left > 0 && !p.pipe.writer_waits {
            left = writes_on(p, left)?;
        }
        done = done.wrapping_add(reads_on(p, done)?);
    }
    if left == 0 && done == 10_000 {
        Some(())
    } else {
        None
    }
}

fn arrive(alloc: Global) -> Result<bool, AllocError> {
    match two_ends(alloc, &[])? {
        Some(mut p) => Ok(passes(&mut p).is_some()),
        None => Ok(false),
    }
}

#[test]
fn ten_thousand_bytes_arrive_whole_and_in_order(rt: HostRuntime) {
    assert!(rt; arrive(rt.alloc()).expect(&rt, "memory"));
}
