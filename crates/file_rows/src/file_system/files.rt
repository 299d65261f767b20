//! Open files and the numbers of a process, by hand from docs/manual/open-files.md, which is open, close and dup(II),
//! and `file.h` and `fio.c` in Lions' Commentary.
ghost use Rattle.std.specs.Prelude.{◌≡◌, true, length};
ghost use Rattle.open_files.specs.Files.{AreOpen, HaveRoom};

use open_files::{Closed, FileKind, OpenTable};
use v6_base::Errno;

/// A call on the table, with the numbers of the process that runs.
#[derive(Clone, Copy)]
enum Call {
    /// Opens a file.
    Add,
    Get(u16),
    Dup(u16),
    Close(u16),
    /// A child has the same numbers.
    Share,
    /// A process without a number runs from here on.
    Fresh,
}

/// What a call comes to.
#[derive(Clone, Copy, PartialEq, Eq)]
enum Told {
    /// A number, or the entry of one.
    Number(u8),
    /// The count that is left.
    Still(u16),
    Last,
    Nothing,
    Refused(Errno),
}

const READING: FileKind = FileKind {
    reading: true,
    writing: false,
    pipe: false,
};

/// Whether each number that isn't 0 names an entry in use.
fn are_open(table: &OpenTable, mine: &[u8; 15]) -> bool
    ensures { result ≡ true → AreOpen table.now mine.now }
{
    for number in mine {
        if *number != 0 && !table.in_use(*number - 1) {
            return false;
        }
    }
    true
}

/// Whether no file has so many numbers that fifteen more can't be counted.
pub fn have_room(table: &OpenTable) -> bool
    ensures long { length table.now ≡ 100 }
    ensures room { result ≡ true → HaveRoom table.now }
{
    let _ = table.in_use(0);
    for entry in 0..100u8 {
        if table.in_use(entry) && table.file(entry).count > 65520 {
            return false;
        }
    }
    true
}

fn number(answer: Result<u8, Errno>) -> Told {
    match answer {
        Ok(n) => Told::Number(n),
        Err(errno) => Told::Refused(errno),
    }
}

fn closing(answer: Result<Closed, Errno>) -> Told {
    match answer {
        Ok(Closed::Still(file)) => Told::Still(file.count),
        Ok(Closed::Last(file)) if file.count == 0 => Told::Last,
        Ok(Closed::Last(_)) => Told::Nothing,
        Err(errno) => Told::Refused(errno),
    }
}

/// What a call comes to, where it may be made.
fn outcome(table: &mut OpenTable, mine: &mut [u8; 15], call: Call) -> Option<Told> {
    if !are_open(table, mine) || !have_room(table) {
        return None;
    }
    Some(match call {
        Call::Add => number(table.add(mine, 7, READING)),
        Call::Get(fd) => number(table.get(mine, fd)),
        Call::Dup(fd) => number(table.dup(mine, fd)),
        Call::Close(fd) => closing(table.drop_one(mine, fd)),
        Call::Share => {
            table.share(mine);
            Told::Nothing
        }
        Call::Fresh => {
            *mine = [0; 15];
            Told::Nothing
        }
    })
}

/// Calls, how often each comes, and what each comes to. Of an `Add` that comes more than once the numbers go up from
/// this one.
type Row = &'static [(Call, u8, Told)];

static ROWS: [Row; 9] = [
    // Numbers go up from 0.
    &[
        (Call::Add, 15, Told::Number(0)),
        (Call::Add, 1, Told::Refused(Errno::EMFILE)),
    ],
    // A hole is taken again, in the numbers and in the table.
    &[
        (Call::Add, 3, Told::Number(0)),
        (Call::Close(1), 1, Told::Last),
        (Call::Get(1), 1, Told::Refused(Errno::EBADF)),
        (Call::Get(2), 1, Told::Number(2)),
        (Call::Close(0), 1, Told::Last),
        (Call::Add, 2, Told::Number(0)),
        (Call::Get(1), 1, Told::Number(1)),
        (Call::Add, 1, Told::Number(3)),
    ],
    // A number that dup gave names the same file, which goes with the last of its numbers.
    &[
        (Call::Add, 2, Told::Number(0)),
        (Call::Dup(1), 1, Told::Number(2)),
        (Call::Get(2), 1, Told::Number(1)),
        (Call::Close(1), 1, Told::Still(1)),
        (Call::Close(1), 1, Told::Refused(Errno::EBADF)),
        (Call::Get(2), 1, Told::Number(1)),
        (Call::Close(2), 1, Told::Last),
        (Call::Close(0), 1, Told::Last),
    ],
    // A number lower than the one that is given once more.
    &[
        (Call::Add, 2, Told::Number(0)),
        (Call::Close(0), 1, Told::Last),
        (Call::Dup(1), 1, Told::Number(0)),
        (Call::Get(0), 1, Told::Number(1)),
    ],
    // A child counts each number, also the second of a file.
    &[
        (Call::Add, 2, Told::Number(0)),
        (Call::Dup(0), 1, Told::Number(2)),
        (Call::Share, 1, Told::Nothing),
        (Call::Close(0), 1, Told::Still(3)),
        (Call::Close(1), 1, Told::Still(1)),
        (Call::Close(2), 1, Told::Still(2)),
    ],
    // It counts all fifteen.
    &[
        (Call::Add, 15, Told::Number(0)),
        (Call::Share, 1, Told::Nothing),
        (Call::Close(0), 1, Told::Still(1)),
        (Call::Close(1), 1, Told::Still(1)),
        (Call::Close(2), 1, Told::Still(1)),
        (Call::Close(3), 1, Told::Still(1)),
        (Call::Close(4), 1, Told::Still(1)),
        (Call::Close(5), 1, Told::Still(1)),
        (Call::Close(6), 1, Told::Still(1)),
        (Call::Close(7), 1, Told::Still(1)),
        (Call::Close(8), 1, Told::Still(1)),
        (Call::Close(9), 1, Told::Still(1)),
        (Call::Close(10), 1, Told::Still(1)),
        (Call::Close(11), 1, Told::Still(1)),
        (Call::Close(12), 1, Told::Still(1)),
        (Call::Close(13), 1, Told::Still(1)),
        (Call::Close(14), 1, Told::Still(1)),
    ],
    // Numbers that no process has.
    &[
        (Call::Get(0), 1, Told::Refused(Errno::EBADF)),
        (Call::Add, 15, Told::Number(0)),
        (Call::Get(14), 1, Told::Number(14)),
        (Call::Get(15), 1, Told::Refused(Errno::EBADF)),
        (Call::Get(65535), 1, Told::Refused(Errno::EBADF)),
        (Call::Close(15), 1, Told::Refused(Errno::EBADF)),
        (Call::Close(65535), 1, Told::Refused(Errno::EBADF)),
        (Call::Dup(15), 1, Told::Refused(Errno::EBADF)),
        (Call::Dup(256), 1, Told::Refused(Errno::EBADF)),
        (Call::Dup(14), 1, Told::Refused(Errno::EMFILE)),
    ],
    // A second process takes other entries.
    &[
        (Call::Add, 2, Told::Number(0)),
        (Call::Fresh, 1, Told::Nothing),
        (Call::Add, 1, Told::Number(0)),
        (Call::Get(0), 1, Told::Number(2)),
    ],
    // A hundred entries, of which the seventh process has the last ten. With its fifteen numbers used it is
    // told of these.
    &[
        (Call::Add, 15, Told::Number(0)),
        (Call::Fresh, 1, Told::Nothing),
        (Call::Add, 15, Told::Number(0)),
        (Call::Fresh, 1, Told::Nothing),
        (Call::Add, 15, Told::Number(0)),
        (Call::Fresh, 1, Told::Nothing),
        (Call::Add, 15, Told::Number(0)),
        (Call::Fresh, 1, Told::Nothing),
        (Call::Add, 15, Told::Number(0)),
        (Call::Fresh, 1, Told::Nothing),
        (Call::Add, 15, Told::Number(0)),
        (Call::Fresh, 1, Told::Nothing),
        (Call::Add, 10, Told::Number(0)),
        (Call::Get(9), 1, Told::Number(99)),
        (Call::Add, 1, Told::Refused(Errno::ENFILE)),
        (Call::Dup(0), 1, Told::Number(10)),
        (Call::Dup(0), 1, Told::Number(11)),
        (Call::Dup(0), 1, Told::Number(12)),
        (Call::Dup(0), 1, Told::Number(13)),
        (Call::Dup(0), 1, Told::Number(14)),
        (Call::Add, 1, Told::Refused(Errno::EMFILE)),
        (Call::Close(9), 1, Told::Last),
        (Call::Add, 1, Told::Number(9)),
        (Call::Get(9), 1, Told::Number(99)),
    ],
];

/// What the call comes to the next time.
fn after(now: Told) -> Told {
    match now {
        Told::Number(n) => Told::Number(n.wrapping_add(1)),
        other => other,
    }
}

fn calls_hold(
    table: &mut OpenTable,
    mine: &mut [u8; 15],
    call: Call,
    times: u8,
    first: Told,
) -> bool {
    let mut wanted = first;
    for _ in 0..times {
        if outcome(table, mine, call) != Some(wanted) {
            return false;
        }
        wanted = after(wanted);
    }
    true
}

fn row_holds(row: Row) -> bool {
    let mut table = OpenTable::new();
    let mut mine = [0; 15];
    for (call, times, first) in row {
        if !calls_hold(&mut table, &mut mine, *call, *times, *first) {
            return false;
        }
    }
    true
}

#[test]
fn files_are_opened_and_closed(rt: HostRuntime) {
    for (k, row) in ROWS.iter().enumerate() {
        assert!(rt; row_holds(*row), "row {k}");
    }
}

/// Whether the file of an entry is as it was opened, but begins here, and is named so often.
fn file_is(table: &OpenTable, entry: u8, ino: u16, offset: u32, count: u16) -> bool {
    if !table.in_use(entry) {
        return false;
    }
    let file = table.file(entry);
    (file.ino, file.kind, file.offset, file.count) == (ino, READING, offset, count)
}

fn put_offset(table: &mut OpenTable, entry: u8, offset: u32) -> bool {
    let used = table.in_use(entry);
    if used {
        table.set_offset(entry, offset);
    }
    used
}

/// An offset is that of one entry, up to the highest; a file that is opened begins at 0.
#[test]
fn offsets_are_kept(rt: HostRuntime) {
    let mut table = OpenTable::new();
    let mut mine = [0; 15];
    let opened = table.add(&mut mine, 0, READING) == Ok(0)
        && table.add(&mut mine, 65535, READING) == Ok(1);
    let begins = file_is(&table, 0, 0, 0, 1) && file_is(&table, 1, 65535, 0, 1);
    let put = put_offset(&mut table, 1, 4_294_967_295) && put_offset(&mut table, 0, 65536);
    let stands = file_is(&table, 0, 0, 65536, 1) && file_is(&table, 1, 65535, 4_294_967_295, 1);
    let past = table.in_use(2) || table.in_use(99) || table.in_use(100) || table.in_use(255);
    assert!(rt; opened && begins && put && stands && !past);
}
