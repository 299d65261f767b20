//! What scripts ask for, and which lines are none: docs/manual/scripts.md, line by line.
use crate::tell;
use script_text::Event::{Byte, Clock, Disk, Hangup, Line, Pace, Run, Switch, Tick};
use script_text::ScriptFault::{BadLine, TooLong, TooManySlots};
use script_text::{Event, ScriptFault, read};
use std::alloc::{AllocError, Global};
use std::process::Abort;

/// A script and its events.
static EVENTS: [(&[u8], &[Event]); 49] = [
    // The last line may lack its line feed, and a carriage return right before one is dropped.
    (b"", &[]),
    (b"tick", &[Tick]),
    (b"tick\n", &[Tick]),
    (b"tick\r\ntick\r\n", &[Tick, Tick]),
    // An empty line and a comment ask for nothing.
    (b"\n", &[]),
    (b"\r\n", &[]),
    (b"tick\n\n\ntick", &[Tick, Tick]),
    (b";", &[]),
    (b"; tick\ntick\n", &[Tick]),
    (b";\0\x07\t\r\x7f\x80\xff\n;run 1", &[]),
    // A text is typed with the return key after it.
    (b"type", &[Byte(13)]),
    (b"type ", &[Byte(13)]),
    (b"type\n", &[Byte(13)]),
    (b"type \r\n", &[Byte(13)]),
    (b"type  x", &[Byte(32), Byte(120), Byte(13)]),
    (b"type x ", &[Byte(120), Byte(32), Byte(13)]),
    (b"type a;b\r\n", &[Byte(97), Byte(59), Byte(98), Byte(13)]),
    (b"type ~", &[Byte(126), Byte(13)]),
    // Decimal numbers have up to nine digits.
    (b"clock 0", &[Clock(0)]),
    (b"clock 000000060\r\n", &[Clock(60)]),
    (b"clock 999999999", &[Clock(999_999_999)]),
    (b"run 0", &[Run(0)]),
    (b"run 000000005", &[Run(5)]),
    (b"run 123456789\n", &[Run(123_456_789)]),
    (b"disk 0", &[Disk(0)]),
    (b"disk 000000003\r\n", &[Disk(3)]),
    (b"disk 999999999", &[Disk(999_999_999)]),
    (b"pace 0", &[Pace(0)]),
    (b"pace 000000007\r\n", &[Pace(7)]),
    (b"pace 999999999", &[Pace(999_999_999)]),
    // A terminal line has one digit, from 0 to 7.
    (b"line 0", &[Line(0)]),
    (b"line 7\n", &[Line(7)]),
    (b"hangup 0\r\n", &[Hangup(0)]),
    (b"hangup 7", &[Hangup(7)]),
    // Octal numbers have all their digits.
    (b"byte 000", &[Byte(0)]),
    (b"byte 101\n", &[Byte(65)]),
    (b"byte 177", &[Byte(127)]),
    (b"byte 377", &[Byte(255)]),
    (b"switch 000000", &[Switch(0)]),
    (b"switch 012345", &[Switch(5_349)]),
    (b"switch 100000\n", &[Switch(32_768)]),
    (b"switch 177777", &[Switch(65_535)]),
    // The slots are at most 200,000,000, and what comes after so many is read too.
    (b"run 200000000", &[Run(200_000_000)]),
    (b"run 200000000\nrun 0\n", &[Run(200_000_000), Run(0)]),
    (
        b"run 100000000\nrun 100000000\ntick",
        &[Run(100_000_000), Run(100_000_000), Tick],
    ),
    (
        b"clock 999999999\nrun 200000000\nclock 1",
        &[Clock(999_999_999), Run(200_000_000), Clock(1)],
    ),
    // The events stand in the order of their lines.
    (
        b"clock 60\nrun 5\ntick\ntype hi\nbyte 004\nswitch 000001\n",
        &[
            Clock(60),
            Run(5),
            Tick,
            Byte(104),
            Byte(105),
            Byte(13),
            Byte(4),
            Switch(1),
        ],
    ),
    (b"run 1\n;\nrun 2\n\nrun 3", &[Run(1), Run(2), Run(3)]),
    (
        b"pace 1\nline 2\ntype a\nhangup 2\nline 0\n",
        &[Pace(1), Line(2), Byte(97), Byte(13), Hangup(2), Line(0)],
    ),
];

/// Scripts whose first line is none.
static BAD_LINES: &[u8] = b"\
# A carriage return stands elsewhere than before a line feed.
\r
tick\r
type x\r
run 5\r
# Other words, or a word without its rest.
walk
tick\x20
 tick
ticks
tic
Tick
tick 1
tick\0
\0
\x20
 ;
types
 type x
type\tx
Type x
clock
clock\x20
run
run\x20
byte
byte\x20
switch
switch\x20
disk
disk\x20
pace
pace\x20
line
line\x20
hangup
hangup\x20
hang 1
# Words are parted by one space, and no space follows the last.
clock  1
clock 1\x20
clock\t1
run  5
run 5\x20
run 5 5
byte  12
byte 12\x20
byte 012\x20
switch  12345
switch 12345\x20
disk  3
disk 3\x20
disk 3 3
pace  3
pace 3\x20
pace 3 3
line  3
line 3\x20
line 3 3
hangup  3
hangup 3\x20
hangup 3 3
# No sign, no other byte than a digit, and at most nine of those.
clock +1
clock -1
clock 1x
clock 0x1
clock 0000000001
clock 1000000000
run +5
run -5
run 5\0
run 5;
run 0000000005
run 1000000000
disk +3
disk 3x
disk 0000000003
disk 1000000000
pace +3
pace 3x
pace 0000000003
pace 1000000000
# Octal digits alone, in their number, and no more than fits.
byte 12
byte 0012
byte 0400
byte 400
byte 777
byte 008
byte 180
byte 900
byte +12
byte 0o1
switch 17777
switch 0177777
switch 200000
switch 777777
switch 000008
switch -00001
line 8
line 9
line 00
line 07
line 10
line -1
line +1
line a
hangup 8
hangup 9
hangup 00
hangup 07
hangup 10
hangup -1
hangup +1
hangup a
# No text has these bytes.
type \x7f
type \t
type \x1f
type x\0
type \x80
";

/// The same, with more lines or an end.
static BAD_FIRST_LINES: [&[u8]; 6] = [
    b"tick\r\r\n",
    b"\rtick\n",
    b"type x\ry\n",
    b"TICK\n",
    b" \n",
    b"type \xff\n",
];

/// A script and its first fault.
static FAULTS: [(&[u8], ScriptFault); 13] = [
    (b"run 200000001", TooManySlots(1)),
    (b"run 999999999", TooManySlots(1)),
    (b"run 200000000\nrun 1", TooManySlots(2)),
    (b"run 200000000\nrun 0\nrun 1\n", TooManySlots(3)),
    (b"run 199999999\n\nrun 2\nrun 0", TooManySlots(3)),
    (b"run 100000000\nrun 999999999", TooManySlots(2)),
    (b"run 5\nwalk\n", BadLine(2)),
    (b"tick\r\n\r", BadLine(2)),
    (b"\n;\ntick \ntick", BadLine(3)),
    (b"walk\nrun\n", BadLine(1)),
    // A fault in an earlier line comes first.
    (b"walk\nrun 200000001\n", BadLine(1)),
    (b"run 200000001\nwalk\n", TooManySlots(1)),
    (b"run 5\nrun 200000000\nwalk", TooManySlots(2)),
];

fn has_events(alloc: Global, script: &[u8], events: &[Event]) -> bool {
    match read(alloc, script) {
        Ok(found) => found.events.as_slice() == events,
        Err(_) => false,
    }
}

fn has_fault(alloc: Global, script: &[u8], fault: ScriptFault) -> bool {
    match read(alloc, script) {
        Ok(_) => false,
        Err(found) => found == fault,
    }
}

#[test]
fn scripts_have_their_events(rt: HostRuntime) {
    for (i, row) in EVENTS.iter().enumerate() {
        tell::plain_row(&rt, i, has_events(rt.alloc(), row.0, row.1));
    }
}

fn is_bad(alloc: Global, row: &[u8]) -> bool {
    row.is_empty() || row.starts_with(b"#") || has_fault(alloc, row, BadLine(1))
}

/// Tells the first row of a text that is a good script. A row that begins with `#` says something of those below it.
fn judge_lines(rt: &impl Abort, alloc: Global, rows: &[u8]) {
    for (k, row) in rows.split(|byte| *byte == b'\n').enumerate() {
        tell::plain_row(rt, k, is_bad(alloc, row));
    }
}

#[test]
fn other_lines_are_bad(rt: HostRuntime) {
    judge_lines(&rt, rt.alloc(), BAD_LINES);
}

#[test]
fn other_first_lines_are_bad(rt: HostRuntime) {
    for (i, script) in BAD_FIRST_LINES.iter().enumerate() {
        tell::plain_row(&rt, i, has_fault(rt.alloc(), script, BadLine(1)));
    }
}

#[test]
fn first_fault_counts(rt: HostRuntime) {
    for (i, row) in FAULTS.iter().enumerate() {
        tell::plain_row(&rt, i, has_fault(rt.alloc(), row.0, row.1));
    }
}

/// The parts of a long script, of which the second stands so often, and the number of its events or its fault.
type Long = (
    &'static [u8],
    &'static [u8],
    usize,
    &'static [u8],
    Result<usize, ScriptFault>,
);

/// Five lines of five bytes: 41,943 of these and one byte more are the 1,048,576 bytes that a script may have.
const TICKS: &[u8] = b"tick\ntick\ntick\ntick\ntick\n";

/// A line has at most 300 bytes, without its end. All bytes of a script count.
static LONG: [Long; 21] = [
    (b"type ", b"x", 295, b"", Ok(296)),
    (b"type ", b"x", 296, b"", Err(BadLine(1))),
    (b"type ", b"x", 295, b"\n", Ok(296)),
    (b"type ", b"x", 295, b"\r\ntick", Ok(297)),
    (b"type ", b"x", 296, b"\ntick", Err(BadLine(1))),
    (b"type ", b"x", 296, b"\r\n", Err(BadLine(1))),
    (b";", b"\xff", 299, b"", Ok(0)),
    (b";", b"\xff", 299, b"\r\n", Ok(0)),
    (b";", b"\xff", 299, b"\r", Err(BadLine(1))),
    (b";", b"\xff", 300, b"", Err(BadLine(1))),
    (b"tick\n;", b" ", 300, b"\ntick", Err(BadLine(2))),
    (b"", b"\r", 301, b"\n", Err(BadLine(1))),
    (b"run 200000001\n;", b" ", 300, b"", Err(TooManySlots(1))),
    (b";", b" ", 300, b"\nrun 200000001", Err(BadLine(1))),
    (b"", TICKS, 41_943, b"\n", Ok(209_715)),
    (b"", TICKS, 41_943, b";", Ok(209_715)),
    (b"", TICKS, 41_943, b"\r\n", Err(TooLong)),
    (b"", TICKS, 41_943, b"x", Err(BadLine(209_716))),
    (
        b"walk\n",
        TICKS,
        41_942,
        b"tick\ntick\ntick\ntick\n\n",
        Err(BadLine(1)),
    ),
    (
        b"walk\n",
        TICKS,
        41_942,
        b"tick\ntick\ntick\ntick\n\r\n",
        Err(TooLong),
    ),
    (b"run 200000001\n", TICKS, 41_943, b"", Err(TooLong)),
];

fn script_of(alloc: Global, row: &Long) -> Result<Vec<u8>, AllocError> {
    let mut script = Vec::new(alloc);
    script.extend_from_slice(row.0)?;
    for _ in 0..row.2 {
        script.extend_from_slice(row.1)?;
    }
    script.extend_from_slice(row.3)?;
    Ok(script)
}

fn ends(alloc: Global, row: &Long) -> Result<bool, AllocError> {
    let script = script_of(alloc, row)?;
    Ok(match (read(alloc, &script), row.4) {
        (Ok(found), Ok(count)) => found.events.len() == count,
        (Err(found), Err(fault)) => found == fault,
        _ => false,
    })
}

#[test]
fn lines_and_scripts_have_their_limits(rt: HostRuntime) {
    for (i, row) in LONG.iter().enumerate() {
        tell::row(&rt, i, ends(rt.alloc(), row));
    }
}
