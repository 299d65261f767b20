//! Rows for eight terminal lines: each is a line by itself, and what goes out goes out under its number.
use self::Step::{
    Closes, Counts, Flushes, IsOpen, Opens, Paces, Reads, Sends, Sets, Shown, Takes, Types, Waits,
};

mod scenes;

use self::scenes::{APART, PACED};
use crate::tell;
use lines_eight::Lines;
use std::alloc::{AllocError, Global};
use std::process::Abort;
use tty_line::{Keyed, Took};
use v6_base::{LINES, Space, Tape, Whole};

/// Something that happens on a terminal line, which comes first, or that is looked at.
#[derive(Clone, Copy)]
enum Step {
    /// There are so many lines.
    Counts(u8),
    /// The line is opened.
    Opens(u8),
    /// The line is closed. Where bytes waited to go out, who waits for room is to be woken.
    Closes(u8, bool),
    /// Whether it is open.
    IsOpen(u8, bool),
    /// Keys are typed. The last of them comes to this.
    Types(u8, &'static [u8], Keyed),
    /// A read of a hundred bytes gives these.
    Reads(u8, &'static [u8]),
    /// A read has to wait.
    Waits(u8),
    /// Bytes are written to the line in one write, of which it takes so many.
    Takes(u8, &'static [u8], u16),
    /// One byte is sent, and it is told so whether who waits for room is to be woken.
    Sends(u8, bool),
    /// The pace is turned on or off, with the same answer.
    Paces(u8, bool, bool),
    /// All that was typed and what waits to go out is lost, with the same answer.
    Flushes(u8, bool),
    /// The modes are set, with the same answer, and they are these then.
    Sets(u8, [u16; 3], bool),
    /// These bytes went out on the line since the last such look, and none on another.
    Shown(u8, &'static [u8]),
}

/// A row: what happens, step by step, on so many lines that nobody has opened yet.
#[derive(Clone, Copy)]
struct Row {
    name: &'static str,
    count: u8,
    steps: &'static [Step],
}

/// Lines, with a process that reads them and what goes out on them.
#[derive(Drop)]
struct Consoles {
    lines: Lines,
    space: Whole,
    tape: Tape,
}

fn begin(alloc: Global, count: u8) -> Result<Consoles, AllocError> {
    let mut space = Whole::new(alloc)?;
    space.set_sizes(0, 20, 1);
    let tape = Tape::new(alloc, 1, 4096)?;
    Ok(Consoles {
        lines: Lines::new(if count == 8 { 8 } else { 1 }),
        space,
        tape,
    })
}

fn types(c: &mut Consoles, l: u8, keys: &[u8], keyed: Keyed) -> bool {
    let mut last = Keyed::Nothing;
    for key in keys {
        if l >= c.lines.count() {
            return false;
        }
        last = c.lines.typed(l, *key, &mut c.tape);
    }
    last == keyed
}

fn stands(space: &Whole, bytes: &[u8]) -> bool {
    let mut at: u16 = 100;
    for byte in bytes {
        if space.load_byte(at) != Ok(*byte) {
            return false;
        }
        at = at.wrapping_add(1);
    }
    true
}

fn reads(c: &mut Consoles, l: u8, bytes: &[u8]) -> bool {
    if l >= c.lines.count() {
        return false;
    }
    let took = Took::Done(u16::try_from(bytes.len()).unwrap_or(u16::MAX));
    c.lines.read(l, &mut c.space, 100, 100) == took && stands(&c.space, bytes)
}

/// These bytes went out on this line, and none on another.
fn shown(c: &mut Consoles, l: u8, bytes: &[u8]) -> bool {
    let mut same = true;
    for line in 0..LINES {
        let found = c.tape.bytes_on(line);
        same = same
            && if line == l {
                found == bytes
            } else {
                found.is_empty()
            };
    }
    c.tape.clear();
    same
}

fn sets(c: &mut Consoles, l: u8, modes: [u16; 3], show: bool) -> bool {
    if l >= c.lines.count() {
        return false;
    }
    let told = c.lines.set_modes(l, modes, &mut c.tape);
    if l >= c.lines.count() {
        return false;
    }
    told == show && c.lines.modes(l) == modes
}

/// The line of a step.
fn line_of(step: Step) -> u8 {
    match step {
        Counts(_) => 0,
        Opens(l) | Waits(l) => l,
        Closes(l, _) | IsOpen(l, _) | Sends(l, _) | Flushes(l, _) => l,
        Types(l, _, _)
        | Reads(l, _)
        | Takes(l, _, _)
        | Paces(l, _, _)
        | Sets(l, _, _)
        | Shown(l, _) => l,
    }
}

/// Whether a step comes to what it must.
fn holds(c: &mut Consoles, step: Step) -> bool {
    let l = line_of(step);
    if l >= c.lines.count() {
        return false;
    }
    match step {
        Counts(count) => return c.lines.count() == count,
        Opens(_) => c.lines.opened(l),
        Closes(_, show) => return c.lines.closed(l, &mut c.tape) == show,
        IsOpen(_, is_open) => return c.lines.is_open(l) == is_open,
        Types(_, keys, keyed) => return types(c, l, keys, keyed),
        Reads(_, bytes) => return reads(c, l, bytes),
        Waits(_) => return c.lines.read(l, &mut c.space, 100, 100) == Took::Wait,
        Takes(_, bytes, count) => return bytes.len() <= 65535
            && c.lines.write(l, bytes, &mut c.tape) == count,
        Sends(_, show) => return c.lines.send(l, &mut c.tape) == show,
        Paces(_, on, show) => return c.lines.set_pace(l, on, &mut c.tape) == show,
        Flushes(_, show) => return c.lines.flush(l) == show,
        Sets(_, modes, show) => return sets(c, l, modes, show),
        Shown(_, bytes) => return shown(c, l, bytes),
    }
    true
}

/// The first step that fails, if any.
fn first_step(alloc: Global, row: &Row) -> Result<Option<usize>, AllocError> {
    let mut c = begin(alloc, row.count)?;
    for i in 0..row.steps.len() {
        if !holds(&mut c, row.steps[i]) {
            return Ok(Some(i));
        }
    }
    Ok(None)
}

fn judge(rt: &impl Abort, alloc: Global, rows: &[Row]) {
    for row in rows {
        tell::step_of(rt, row.name, first_step(alloc, row).expect(rt, "memory"));
    }
}

#[test]
fn lines_are_apart(rt: HostRuntime) {
    judge(&rt, rt.alloc(), &APART);
}

#[test]
fn bytes_wait_on_each_line(rt: HostRuntime) {
    judge(&rt, rt.alloc(), &PACED);
}
