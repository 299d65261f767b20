//! Rows for the line of a terminal: tty(IV), stty(II), read(II), write(II). Octal numbers are those of the manual.
use self::Edit::{Keys, With};
use self::Output::{After, First};
use self::Step::{
    Closes, Counted, Each, Empties, Faults, Flushes, Has, IsOpen, Many, Opens, Paces, Puts,
    PutsMany, Reads, ReadsAt, ReadsMany, Rounds, Sends, Sets, Shown, ShownMany, Takes, TakesMany,
    Types, Waits,
};

mod edits;
mod outputs;
mod paced;
mod scenes;

use self::edits::EDITS;
use self::outputs::OUTPUTS;
use self::paced::{LET_OUT, PACED};
use self::scenes::{COLUMNS, FAULTS, KEYS, LINES, MODES, PIECES, ROOM, SHOWN};
use std::alloc::{AllocError, Global};
use std::process::Abort;
use tty_line::Keyed::Nothing;
use tty_line::{Keyed, Line, Took};
use v6_base::{Space, Tape, Whole};

/// Something that happens on a terminal, or that is looked at.
#[derive(Clone, Copy)]
enum Step {
    /// The line is opened.
    Opens,
    /// The line is closed. Where bytes waited to go out, who waits for room is to be woken.
    Closes(bool),
    /// Whether it is open.
    IsOpen(bool),
    /// Keys are typed. The last of them comes to this, and those before it to nothing.
    Types(&'static [u8], Keyed),
    /// Keys are typed, and each of them comes to this.
    Each(&'static [u8], Keyed),
    /// One key is typed so often, and comes to this each time.
    Many(u8, usize, Keyed),
    /// A read of so many bytes to address 100 gives these.
    Reads(u16, &'static [u8]),
    /// The same, where it gives one byte so often, 256 times at most.
    ReadsMany(u16, u8, usize),
    /// The same to another address.
    ReadsAt(u16, u16, &'static [u8]),
    /// A read to an address of so many bytes meets one that can't be written after these.
    Faults(u16, u16, &'static [u8]),
    /// A read of so many bytes has to wait.
    Waits(u16),
    /// Bytes are written to the line, which takes them all.
    Puts(&'static [u8]),
    /// One byte is written so often.
    PutsMany(u8, usize),
    /// Bytes are written to the line in one write, of which it takes so many.
    Takes(&'static [u8], u16),
    /// The same of one byte so often, 256 times at most.
    TakesMany(u8, usize, u16),
    /// This was shown since the last such look.
    Shown(&'static [u8]),
    /// The same, where it is one byte so often, 256 times at most.
    ShownMany(u8, usize),
    /// So many bytes were shown since the last such look.
    Counted(usize),
    /// Bytes are sent so often. Each time it is told so whether who waits for room is to be woken.
    Sends(usize, bool),
    /// The pace is turned on or off, and it is told so whether who waits for room is to be woken.
    Paces(bool, bool),
    /// All that was typed and what waits to go out is lost, and it is told so whether who waits for room is to be woken.
    Flushes(bool),
    /// A key and a new line are typed and read, so often.
    Rounds(u8, usize),
    /// The modes are set, and no byte waits to go out.
    Sets([u16; 3]),
    /// The modes are set, and bytes waited to go out: who waits for room is to be woken.
    Empties([u16; 3]),
    /// These are the modes.
    Has([u16; 3]),
}

/// A row: what happens, step by step, on a line that nobody has opened yet.
#[derive(Clone, Copy)]
struct Row {
    name: &'static str,
    steps: &'static [Step],
}

/// Keys that are typed, and the line that they make.
#[derive(Clone, Copy)]
enum Edit {
    /// With these flags, where `#` erases and `@` kills.
    Keys(u16, &'static [u8], &'static [u8]),
    /// With these characters: the one that erases in the low byte, and the one that kills in the high byte.
    With(u16, &'static [u8], &'static [u8]),
}

/// Bytes that are written to a terminal with these flags, and what it shows.
#[derive(Clone, Copy)]
enum Output {
    /// At column 0.
    First(u16, &'static [u8], &'static [u8]),
    /// After so many bytes that print.
    After(usize, u16, &'static [u8], &'static [u8]),
}

/// A line, with a process that reads it and what it shows.
#[derive(Drop)]
struct Console {
    line: Line,
    space: Whole,
    tape: Tape,
}

/// Nobody has opened the line. The memory has 1,280 bytes from address 0 on, and the last 64 before address 65,536.
fn begin(alloc: Global) -> Result<Console, AllocError> {
    let mut space = Whole::new(alloc)?;
    space.set_sizes(0, 20, 1);
    let tape = Tape::new(alloc, 1, 4096)?;
    Ok(Console {
        line: Line::new(),
        space,
        tape,
    })
}

fn types(c: &mut Console, keys: &[u8], keyed: Keyed) -> bool {
    for i in 0..keys.len() {
        let wanted = if i + 1 < keys.len() { Nothing } else { keyed };
        if c.line.typed(keys[i], &mut c.tape) != wanted {
            return false;
        }
    }
    true
}

fn types_each(c: &mut Console, keys: &[u8], keyed: Keyed) -> bool {
    for key in keys {
        if c.line.typed(*key, &mut c.tape) != keyed {
            return false;
        }
    }
    true
}

/// What stands in the memory before a read.
const BLANK: u8 = 0o252;

fn blank(space: &mut Whole, at: u16, bytes: &[u8]) {
    let mut place = at;
    for _ in bytes {
        let _ = space.store_byte(place, BLANK);
        place = place.wrapping_add(1);
    }
    let _ = space.store_byte(place, BLANK);
}

/// Bytes stand at an address, and none was put after them.
fn stands(space: &Whole, at: u16, bytes: &[u8]) -> bool {
    let mut place = at;
    for byte in bytes {
        if space.load_byte(place) != Ok(*byte) {
            return false;
        }
        place = place.wrapping_add(1);
    }
    match space.load_byte(place) {
        Ok(byte) => byte == BLANK,
        Err(_) => true,
    }
}

/// What a read comes to that gives these bytes.
fn gives(bytes: &[u8]) -> Took {
    Took::Done(u16::try_from(bytes.len()).unwrap_or(u16::MAX))
}

/// A read puts these bytes into the memory, and none after them.
fn reads(c: &mut Console, at: u16, count: u16, bytes: &[u8], took: Took) -> bool {
    blank(&mut c.space, at, bytes);
    c.line.read(&mut c.space, at, count) == took && stands(&c.space, at, bytes)
}

fn reads_many(c: &mut Console, count: u16, byte: u8, times: usize) -> bool {
    let all = [byte; 256];
    let bytes = &all[..times.min(256)];
    reads(c, 100, count, bytes, gives(bytes))
}

fn types_many(c: &mut Console, key: u8, times: usize, keyed: Keyed) -> bool {
    for _ in 0..times {
        if c.line.typed(key, &mut c.tape) != keyed {
            return false;
        }
    }
    true
}

/// A line without a pace takes all bytes.
fn puts(c: &mut Console, bytes: &[u8]) -> bool {
    takes(c, bytes, u16::try_from(bytes.len()).unwrap_or(u16::MAX))
}

fn takes(c: &mut Console, bytes: &[u8], count: u16) -> bool {
    bytes.len() <= 65535 && c.line.write(bytes, &mut c.tape) == count
}

fn takes_many(c: &mut Console, byte: u8, times: usize, count: u16) -> bool {
    let all = [byte; 256];
    takes(c, &all[..times.min(256)], count)
}

fn puts_many(c: &mut Console, byte: u8, times: usize) -> bool {
    for _ in 0..times {
        if !puts(c, &[byte]) {
            return false;
        }
    }
    true
}

fn sends(c: &mut Console, times: usize, show: bool) -> bool {
    for _ in 0..times {
        if c.line.send(&mut c.tape) != show {
            return false;
        }
    }
    true
}

/// A key and a new line are typed, and then read.
fn rounds(c: &mut Console, key: u8, times: usize) -> bool {
    for _ in 0..times {
        let keys = [key, b'\n'];
        if !types(c, &keys, Keyed::Ready) || !reads(c, 100, 300, &keys, gives(&keys)) {
            return false;
        }
    }
    true
}

fn counted(c: &mut Console, count: usize) -> bool {
    let same = c.tape.bytes().len() == count;
    c.tape.clear();
    same
}

fn shown_many(c: &mut Console, byte: u8, times: usize) -> bool {
    let all = [byte; 256];
    shown(c, &all[..times.min(256)])
}

fn shown(c: &mut Console, bytes: &[u8]) -> bool {
    let same = c.tape.bytes() == bytes;
    c.tape.clear();
    same
}

/// Whether a step comes to what it must.
fn holds(c: &mut Console, step: Step) -> bool {
    match step {
        Opens => c.line.opened(),
        Closes(show) => return c.line.closed(&mut c.tape) == show,
        IsOpen(is_open) => return c.line.is_open() == is_open,
        Types(keys, keyed) => return types(c, keys, keyed),
        Each(keys, keyed) => return types_each(c, keys, keyed),
        Many(key, times, keyed) => return types_many(c, key, times, keyed),
        ReadsMany(count, byte, times) => return reads_many(c, count, byte, times),
        PutsMany(byte, times) => return puts_many(c, byte, times),
        ShownMany(byte, times) => return shown_many(c, byte, times),
        Reads(count, bytes) => return reads(c, 100, count, bytes, gives(bytes)),
        ReadsAt(at, count, bytes) => return reads(c, at, count, bytes, gives(bytes)),
        Faults(at, count, bytes) => return reads(c, at, count, bytes, Took::Fault),
        Waits(count) => return reads(c, 100, count, &[], Took::Wait),
        Puts(bytes) => return puts(c, bytes),
        Takes(bytes, count) => return takes(c, bytes, count),
        TakesMany(byte, times, count) => return takes_many(c, byte, times, count),
        Shown(bytes) => return shown(c, bytes),
        Counted(count) => return counted(c, count),
        Sends(times, show) => return sends(c, times, show),
        Paces(on, show) => return c.line.set_pace(on, &mut c.tape) == show,
        Flushes(show) => return c.line.flush() == show,
        Rounds(key, times) => return rounds(c, key, times),
        Sets(modes) => return !c.line.set_modes(modes, &mut c.tape),
        Empties(modes) => return c.line.set_modes(modes, &mut c.tape),
        Has(modes) => return c.line.modes() == modes,
    }
    true
}

/// The first step that fails, if any.
fn first_step(c: &mut Console, steps: &[Step]) -> Option<usize> {
    for i in 0..steps.len() {
        if !holds(c, steps[i]) {
            return Some(i);
        }
    }
    None
}

/// What fails first, if anything: its name, and its step or number.
type Failure = Option<(&'static str, usize)>;

fn judge(rt: &impl Abort, found: Result<Failure, AllocError>) {
    if let Some((name, number)) = found.expect(rt, "memory") {
        panic!(rt; "{name}: {number}");
    }
}

/// The first row that fails.
fn first_row(alloc: Global, rows: &[Row]) -> Result<Failure, AllocError> {
    for row in rows {
        let mut c = begin(alloc)?;
        if let Some(step) = first_step(&mut c, row.steps) {
            return Ok(Some((row.name, step)));
        }
    }
    Ok(None)
}

/// Whether keys make a line.
fn makes(c: &mut Console, edit: Edit) -> bool {
    let (characters, flags, keys, line) = match edit {
        Keys(flags, keys, line) => (0x4023, flags, keys, line),
        With(characters, keys, line) => (characters, 0o36, keys, line),
    };
    c.line.opened();
    let _ = c.line.set_modes([0, characters, flags], &mut c.tape);
    for key in keys {
        let _ = c.line.typed(*key, &mut c.tape);
    }
    reads(c, 100, 300, line, gives(line))
}

/// The first edit that fails.
fn first_edit(alloc: Global, edits: &[Edit]) -> Result<Failure, AllocError> {
    for i in 0..edits.len() {
        let mut c = begin(alloc)?;
        if !makes(&mut c, edits[i]) {
            return Ok(Some(("edit", i)));
        }
    }
    Ok(None)
}

/// Whether bytes go out so.
fn goes_out(c: &mut Console, output: Output) -> bool {
    let (columns, flags, bytes, wanted) = match output {
        First(flags, bytes, wanted) => (0, flags, bytes, wanted),
        After(columns, flags, bytes, wanted) => (columns, flags, bytes, wanted),
    };
    c.line.opened();
    let _ = c.line.set_modes([0, 0, flags], &mut c.tape);
    let _ = puts_many(c, b'x', columns);
    c.tape.clear();
    puts(c, bytes) && shown(c, wanted)
}

/// The first output that fails.
fn first_output(alloc: Global, outputs: &[Output]) -> Result<Failure, AllocError> {
    for i in 0..outputs.len() {
        let mut c = begin(alloc)?;
        if !goes_out(&mut c, outputs[i]) {
            return Ok(Some(("output", i)));
        }
    }
    Ok(None)
}

#[test]
fn keys_edit_a_line(rt: HostRuntime) {
    judge(&rt, first_row(rt.alloc(), &KEYS));
}

#[test]
fn keys_without_room_are_lost(rt: HostRuntime) {
    judge(&rt, first_row(rt.alloc(), &ROOM));
}

#[test]
fn lines_are_full(rt: HostRuntime) {
    judge(&rt, first_row(rt.alloc(), &LINES));
}

#[test]
fn lines_are_read(rt: HostRuntime) {
    judge(&rt, first_row(rt.alloc(), &PIECES));
}

#[test]
fn faults_lose_a_byte(rt: HostRuntime) {
    judge(&rt, first_row(rt.alloc(), &FAULTS));
}

#[test]
fn modes_are_set(rt: HostRuntime) {
    judge(&rt, first_row(rt.alloc(), &MODES));
}

#[test]
fn keys_are_shown(rt: HostRuntime) {
    judge(&rt, first_row(rt.alloc(), &SHOWN));
}

#[test]
fn columns_are_counted(rt: HostRuntime) {
    judge(&rt, first_row(rt.alloc(), &COLUMNS));
}

#[test]
fn bytes_wait_to_go_out(rt: HostRuntime) {
    judge(&rt, first_row(rt.alloc(), &PACED));
}

#[test]
fn bytes_that_wait_are_let_out(rt: HostRuntime) {
    judge(&rt, first_row(rt.alloc(), &LET_OUT));
}

#[test]
fn keys_make_lines(rt: HostRuntime) {
    judge(&rt, first_edit(rt.alloc(), &EDITS));
}

#[test]
fn bytes_go_out(rt: HostRuntime) {
    judge(&rt, first_output(rt.alloc(), &OUTPUTS));
}
