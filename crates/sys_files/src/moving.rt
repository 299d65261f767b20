//! Bytes are read and written: `rdwr` and `seek` in Lions' Commentary, `sys2.c`.
ghost use Rattle.std.specs.Prelude.{◌≡◌, ◌<◌, ◌≤◌, ◌+◌, ◌%◌, ◌^◌, IsSome, ◌==◌, ◌||◌, length, if◌then◌else◌, slice_index, take};
ghost use Rattle.v6_base.specs.Trace.{Took, sent};
ghost use Rattle.proc_tab.specs.declared.row.Row.{Row};
ghost use Rattle.u_area.specs.declared.area.UArea.{UArea};
ghost use Rattle.open_files.specs.Files.{file_at, with_change, with_offset};
ghost use Rattle.fs_codec.specs.Modes.{is_device};
ghost use Rattle.fs_nodes.specs.FileSystem.{SameRest};
ghost use Rattle.fs_tree.specs.Name.{readable};
ghost use Rattle.sys_files.specs.Handed.{Handed, handed, node_in};
ghost use Rattle.tty_line.specs.Output.{shows, after_shown, written};
ghost use Rattle.lines_eight.specs.Lines.{terminal_at, with_terminal};
ghost use Rattle.sys_files.specs.Moving.{IsFileOf, with_moved, gives_count, waits_for_keys, waits_for_room, line_kept, read_of, with_read, reads_from, reads_line, read_file_of};
ghost use Rattle.sys_files.specs.Moving.{write_of, writes_line, writes_to, write_file_of, goes_on_line, resumes};
ghost use Rattle.sys_files.specs.Moving.{extended, seek_mode, seek_base, seek_move, sought, seek_to};
ghost use Rattle.sys_files.specs.Sound.{IsSound, CanGoOn};
ghost use Rattle.sys_files.specs.Does.{Does};
ghost use Rattle.sys_files.specs.Entering.{did_with};

use crate::descriptors::{file_of, open_entry, see_entries};
use crate::devices::line_at;
use crate::files::Files;
use crate::piping::{Transfer, read_pipe, write_pipe};
use fs_codec::is_device;
use fs_nodes::{Moved, Nodes};
use lines_eight::{Lines, keys_of, show_of};
use open_files::{OpenFile, OpenTable};
use proc_tab::Row;
use sig_core::due;
use u_area::{LINE_READ, LINE_WRITE, NOTHING_PENDING, PIPE_READ, UArea};
use v6_base::{Answer, Errno, Slot, Space, Trace};

/// The priority at which a process waits for keys: `TTIPRI` in Lions' Commentary, `tty.h`.
const TTIPRI: i8 = 10;

/// The priority at which a process waits for room in what goes out: `TTOPRI` there.
const TTOPRI: i8 = 20;

/// Says where the next read or write of an open file begins, when some bytes from its place on are done.
fn move_on(table: &mut OpenTable, entry: u8, file: &OpenFile, done: u16)
    requires used { IsSome (file_at table.old entry) }
    ensures { table.new ≡ with_change table.old entry (with_offset ((file.now.offset + done) % 2 ^ 32)) }
{
    table.set_offset(entry, file.offset.wrapping_add(u32::from(done)));
}

/// R0 takes a number of bytes, unless an error has come.
fn give_count(u: &UArea, count: u16, error: Option<Errno>) -> Answer
    ensures { (h : Handed) → h.u ≡ u.now → result ≡ (gives_count h count error).answer }
{
    match error {
        None => Answer::Ret {
            r0: count,
            r1: u.r[1],
        },
        Some(e) => Answer::Fail(e),
    }
}

/// Lets the process wait for keys of a line, with what it needs to go on, unless a signal is due.
fn wait_for_keys(line: u8, u: &mut UArea, row: &Row, entry: u16, at: u16, count: u16) -> Answer
    ensures { (h : Handed) → h.u ≡ u.old → h.row ≡ row.now
        → waits_for_keys h line entry at count ≡ did_with (record h { u = u.new }) result }
{
    if due(row, u).is_some() {
        return Answer::Fail(Errno::EINTR);
    }
    u.pending = LINE_READ;
    u.call = [entry, at, count, 0, 0, 0, 0, 0];
    Answer::Sleep {
        pri: TTIPRI,
        chan: keys_of(line),
    }
}

/// Lets the process wait for room on a line, with what it needs to go on and with how many bytes are done, unless a signal is
/// due.
fn wait_for_room(
    line: u8,
    u: &mut UArea,
    row: &Row,
    entry: u16,
    at: u16,
    count: u16,
    done: u16,
) -> Answer
    ensures { (h : Handed) → h.u ≡ u.old → h.row ≡ row.now
        → waits_for_room h line entry at count done ≡ did_with (record h { u = u.new }) result }
{
    if due(row, u).is_some() {
        return Answer::Fail(Errno::EINTR);
    }
    u.pending = LINE_WRITE;
    u.call = [entry, at, count, done, 0, 0, 0, 0];
    Answer::Sleep {
        pri: TTOPRI,
        chan: show_of(line),
    }
}

/// Reads bytes that were typed on a line, or waits for keys.
fn read_line<S: Space>(
    lines: &mut Lines,
    l: u8,
    entry: u16,
    u: &mut UArea,
    row: &Row,
    space: &mut S,
    at: u16,
    count: u16,
) -> Answer
    requires there { l < length lines.old }
    ensures did { (h : Handed) → h.lines ≡ lines.old → h.u ≡ u.old → h.row ≡ row.now → h.image ≡ S.image space.old
        → reads_line h l entry at count
        ≡ did_with (record h { lines = lines.new; u = u.new; image = S.image space.new }) result }
    ensures memory { S.rest space.new ≡ S.rest space.old }
{
    match lines.read(l, space, at, count) {
        tty_line::Took::Done(n) => Answer::Ret { r0: n, r1: u.r[1] },
        tty_line::Took::Wait => wait_for_keys(l, u, row, entry, at, count),
        tty_line::Took::Fault => Answer::Fail(Errno::EFAULT),
    }
}

/// Reads bytes of an open file from its place on.
fn read_bytes<S: Space>(
    f: &mut Files,
    entry: u8,
    file: &OpenFile,
    space: &mut S,
    at: u16,
    count: u16,
    now: u32,
) -> Moved
    requires file { IsFileOf f.old entry file.now }
    ensures done { (u : UArea) (row : Row) → result.done
        ≡ (read_of (handed f.old u row (S.image space.old)) entry at count now).done }
    ensures error { (u : UArea) (row : Row) → result.error
        ≡ (read_of (handed f.old u row (S.image space.old)) entry at count now).error }
    ensures state { (u : UArea) (row : Row) → handed f.new u row (S.image space.new)
        ≡ with_read (handed f.old u row (S.image space.old)) entry (read_of (handed f.old u row
        (S.image space.old)) entry at count now) }
    ensures lines { f.new.lines ≡ f.old.lines }
    ensures memory { S.rest space.new ≡ S.rest space.old }
    ensures blocks { SameRest f.old.tree.nodes f.new.tree.nodes }
{
    f.tree.nodes.see();
    let read = f
        .tree
        .nodes
        .read_at(file.ino, file.offset, space, at, count, now);
    move_on(&mut f.table, entry, file, read.done);
    read
}

/// Reads from an open file, or from a line.
fn read_from<S: Space>(
    f: &mut Files,
    entry: u8,
    file: &OpenFile,
    u: &mut UArea,
    row: &Row,
    space: &mut S,
    at: u16,
    count: u16,
    now: u32,
) -> Answer
    requires file { IsFileOf f.old entry file.now }
    ensures did { reads_from (handed f.old u.old row.now (S.image space.old)) entry at count now
        ≡ did_with (handed f.new u.new row.now (S.image space.new)) result }
    ensures memory { S.rest space.new ≡ S.rest space.old }
    ensures blocks { SameRest f.old.tree.nodes f.new.tree.nodes }
{
    let line = line_at(&f.tree.nodes, &f.lines, file.ino);
    let moved = read_bytes(f, entry, file, space, at, count, now);
    match line {
        Some(l) => {
            let entry = u16::from(entry);
            read_line(&mut f.lines, l, entry, u, row, space, at, count)
        }
        None => give_count(u, moved.done, moved.error),
    }
}

/// What a read or a write of a pipe is about, as it begins.
fn transfer_of(entry: u8, args: [u16; 4]) -> Transfer
    ensures { result ≡ record { entry = entry; at = slice_index args 0; count = slice_index args 1; left = slice_index args 1 } }
{
    Transfer {
        entry: u16::from(entry),
        at: args[0],
        count: args[1],
        left: args[1],
    }
}

/// 3, read(II): of the number in R0, into a buffer. The arguments are its address and how many bytes are to be read. R0 takes
/// the number of bytes that were read: fewer, where the file ends before, and 0 of the null device. A read of a terminal line
/// waits until keys are typed, and a read of a pipe until there are bytes or nobody is left who could write; or until a signal
/// comes. The next read or write begins after what was read, also after an error.
///
/// # Errors
///
/// `EBADF`: the number is not open, or not for reading. `ENOSPC`: no block is free for a hole of the file. `EFAULT`: an
/// address of the buffer cannot be written. `EINTR`: the process would wait, and a signal is due.
#[tactic(auto, using(v6_base::proofs::Took::takes))]
pub fn read_file<S: Space, T: Trace>(
    f: &mut Files,
    _slot: Slot,
    u: &mut UArea,
    row: &mut Row,
    space: &mut S,
    args: [u16; 4],
    now: u32,
    trace: &mut T,
) -> Answer
    requires sound { IsSound (handed f.old u.old row.old (S.image space.old)) }
    ensures does { Does (handed f.old u.old row.old (S.image space.old))
        (handed f.new u.new row.new (S.image space.new)) result (T.taken trace.old) (T.taken trace.new)
        (read_file_of (handed f.old u.old row.old (S.image space.old)) (slice_index args 0) (slice_index args 1) now) }
    ensures frame { T.leads_to trace.old trace.new }
    ensures memory { S.rest space.new ≡ S.rest space.old }
    ensures blocks { SameRest f.old.tree.nodes f.new.tree.nodes }
{
    let entry = match open_entry(f, u, u.r[0]) {
        Ok(entry) => entry,
        Err(e) => return Answer::Fail(e),
    };
    let file = file_of(f, entry);
    if !file.kind.reading {
        return Answer::Fail(Errno::EBADF);
    }
    if file.kind.pipe {
        let transfer = transfer_of(entry, args);
        return read_pipe(f, u, row, space, transfer, now, trace);
    }
    read_from(f, entry, &file, u, row, space, args[0], args[1], now)
}

/// The line of a call that is gone on with, by the entry that was kept.
fn line_kept(f: &Files, entry: u16) -> u8
    requires used { IsSome (file_at f.now.table entry) }
    requires referred { (file : OpenFile) → file_at f.now.table entry ≡ Some file
        → 0 < slice_index f.now.tree.nodes.references file.ino }
    ensures line { (h : Handed) → h.files ≡ f.now.table → h.lines ≡ f.now.lines → h.inodes.store ≡ f.now.tree.nodes.store
        → result ≡ line_kept h entry }
    ensures there { result < length f.now.lines }
{
    see_entries(&f.table);
    let ino = f.table.file(entry as u8).ino;
    line_at(&f.tree.nodes, &f.lines, ino).unwrap_or(0)
}

/// Goes on with a read or a write of a line.
fn resume_line<S: Space, T: Trace>(
    f: &mut Files,
    pending: u8,
    call: [u16; 8],
    u: &mut UArea,
    row: &Row,
    space: &mut S,
    trace: &mut T,
) -> Answer
    requires used { IsSome (file_at f.old.table (slice_index call 0)) }
    requires referred { (file : OpenFile) → file_at f.old.table (slice_index call 0) ≡ Some file
        → 0 < slice_index f.old.tree.nodes.references file.ino }
    requires within { slice_index call 3 ≤ slice_index call 2 }
    ensures answer { (h : Handed) → h.u ≡ u.old → h.row ≡ row.now → h.files ≡ f.old.table → h.lines ≡ f.old.lines
        → h.inodes.store ≡ f.old.tree.nodes.store → h.image ≡ S.image space.old
        → result ≡ (goes_on_line h pending call).answer }
    ensures state { (h : Handed) → h.u ≡ u.old → h.row ≡ row.now → h.files ≡ f.old.table → h.lines ≡ f.old.lines
        → h.inodes.store ≡ f.old.tree.nodes.store → h.image ≡ S.image space.old
        → record h { lines = f.new.lines; u = u.new; image = S.image space.new } ≡ (goes_on_line h pending call).state }
    ensures items { (h : Handed) → h.u ≡ u.old → h.row ≡ row.now → h.files ≡ f.old.table → h.lines ≡ f.old.lines
        → h.inodes.store ≡ f.old.tree.nodes.store → h.image ≡ S.image space.old
        → Took (T.taken trace.old) (goes_on_line h pending call).items (T.taken trace.new) }
    ensures frame { T.leads_to trace.old trace.new }
    ensures memory { S.rest space.new ≡ S.rest space.old }
    ensures tree { f.new.tree ≡ f.old.tree }
    ensures table { f.new.table ≡ f.old.table }
    ensures pipes { f.new.pipes ≡ f.old.pipes }
{
    let l = line_kept(f, call[0]);
    if pending == LINE_READ {
        return read_line(&mut f.lines, l, call[0], u, row, space, call[1], call[2]);
    }
    write_line(
        &mut f.lines,
        l,
        call[0],
        u,
        row,
        space,
        call[1],
        call[2],
        call[3],
        trace,
    )
}

/// Whether the pending call is a read or a write of a line.
fn is_on_line(pending: u8) -> bool
    ensures { result ≡ (pending == LINE_READ) || (pending == LINE_WRITE) }
{
    pending == LINE_READ || pending == LINE_WRITE
}

/// Takes up a call again in which a process slept, as the per-process area keeps it: a read or a write of a line, the write at
/// the byte where it stood, or a read or a write of a pipe. It may wait again.
///
/// # Errors
///
/// `EINTR`: a signal is due. Nothing more was done then. Else those of `read_file` and of `write_file`. Where an address can't
/// be written for a byte of a line, the byte is lost, and those before it were written.
pub fn resume_file<S: Space, T: Trace>(
    f: &mut Files,
    slot: Slot,
    u: &mut UArea,
    row: &mut Row,
    space: &mut S,
    now: u32,
    trace: &mut T,
) -> Answer
    requires sound { IsSound (handed f.old u.old row.old (S.image space.old)) }
    requires pending { CanGoOn (handed f.old u.old row.old (S.image space.old)) }
    ensures does { Does (handed f.old u.old row.old (S.image space.old))
        (handed f.new u.new row.new (S.image space.new)) result (T.taken trace.old) (T.taken trace.new)
        (resumes (handed f.old u.old row.old (S.image space.old)) slot now) }
    ensures frame { T.leads_to trace.old trace.new }
    ensures memory { S.rest space.new ≡ S.rest space.old }
    ensures blocks { SameRest f.old.tree.nodes f.new.tree.nodes }
{
    let pending = u.pending;
    let call = u.call;
    u.pending = NOTHING_PENDING;
    u.call = [0; 8];
    if due(row, u).is_some() {
        return Answer::Fail(Errno::EINTR);
    }
    if is_on_line(pending) {
        return resume_line(f, pending, call, u, row, space, trace);
    }
    let transfer = Transfer {
        entry: call[0],
        at: call[1],
        count: call[2],
        left: call[3],
    };
    if pending == PIPE_READ {
        return read_pipe(f, u, row, space, transfer, now, trace);
    }
    write_pipe(f, slot, u, row, space, transfer, now, trace)
}

/// Whether the inode of a number, which is referred to, is a device's.
pub fn is_device_at(nodes: &Nodes, ino: u16) -> bool
    requires referenced { 0 < slice_index nodes.now.references ino }
    ensures { result ≡ is_device (node_in nodes.now.store ino).mode }
{
    is_device(nodes.node(ino).mode)
}

/// How many bytes count as written: a device takes all.
fn taken(device: bool, count: u16, done: u16) -> u16
    ensures { result ≡ (if device then count else done) }
{
    if device { count } else { done }
}

/// How many bytes of a memory are got at once to be shown.
const PIECE: u16 = 128;

/// Gets bytes of a memory from an address on, up to the first that cannot be read, and says how many. Addresses wrap round.
fn read_front<S: Space>(space: &S, at: u16, into: &mut [u8]) -> usize
    requires { length into.old ≤ 512 }
    ensures few { result ≤ length into.new }
    ensures front { take result into.new ≡ readable (S.image space.now) at (length into.old) }
{
    if space.copy_in(at, into) {
        return into.len();
    }
    for i in 0..into.len() {
        match space.load_byte(at.wrapping_add(i as u16)) {
            Ok(byte) => into[i] = byte,
            Err(_) => return i,
        }
    }
    into.len()
}

/// Shows bytes of a memory on a line, a piece of them from an address on, up to the first that cannot be read or for which
/// there is no room, and says how many.
fn show_piece<S: Space, T: Trace>(
    lines: &mut Lines,
    l: u8,
    space: &S,
    at: u16,
    count: u16,
    trace: &mut T,
) -> u16
    requires there { l < length lines.old }
    requires few { count ≤ PIECE }
    ensures taken { result ≡ written (terminal_at lines.old l) (readable (S.image space.now) at count) }
    ensures line { lines.new ≡ with_terminal lines.old l
        (after_shown (terminal_at lines.old l) (take result (readable (S.image space.now) at count))) }
    ensures items { Took (T.taken trace.old)
        (sent l (shows (terminal_at lines.old l) (take result (readable (S.image space.now) at count)))) (T.taken trace.new) }
    ensures frame { T.leads_to trace.old trace.new }
{
    let mut piece = [0; PIECE as usize];
    let part = &mut piece[..usize::from(count)];
    let got = read_front(space, at, part);
    lines.write(l, &part[..got], trace)
}

/// Shows bytes of a memory on a line, so many from an address on, one after another, up to the first that cannot be read or for
/// which there is no room, and says how many. Addresses wrap round.
fn show_all<S: Space, T: Trace>(
    lines: &mut Lines,
    l: u8,
    space: &S,
    at: u16,
    count: u16,
    trace: &mut T,
) -> u16
    requires there { l < length lines.old }
    ensures taken { result ≡ written (terminal_at lines.old l) (readable (S.image space.now) at count) }
    ensures line { lines.new ≡ with_terminal lines.old l
        (after_shown (terminal_at lines.old l) (take result (readable (S.image space.now) at count))) }
    ensures items { Took (T.taken trace.old)
        (sent l (shows (terminal_at lines.old l) (take result (readable (S.image space.now) at count)))) (T.taken trace.new) }
    ensures frame { T.leads_to trace.old trace.new }
    ensures most { result ≤ count }
{
    let mut shown: u16 = 0;
    while shown < count {
        let most = PIECE.min(count - shown);
        let taken = show_piece(lines, l, space, at.wrapping_add(shown), most, trace);
        shown += taken;
        if taken < most {
            return shown;
        }
    }
    shown
}

/// Shows bytes of a memory on a line, of which so many are done, or waits until there is room.
fn write_line<S: Space, T: Trace>(
    lines: &mut Lines,
    l: u8,
    entry: u16,
    u: &mut UArea,
    row: &Row,
    space: &S,
    at: u16,
    count: u16,
    done: u16,
    trace: &mut T,
) -> Answer
    requires there { l < length lines.old }
    requires within { done ≤ count }
    ensures answer { (h : Handed) → h.lines ≡ lines.old → h.u ≡ u.old → h.row ≡ row.now → h.image ≡ S.image space.now
        → result ≡ (writes_line h l entry at count done).answer }
    ensures state { (h : Handed) → h.lines ≡ lines.old → h.u ≡ u.old → h.row ≡ row.now → h.image ≡ S.image space.now
        → record h { lines = lines.new; u = u.new } ≡ (writes_line h l entry at count done).state }
    ensures items { (h : Handed) → h.lines ≡ lines.old → h.image ≡ S.image space.now
        → Took (T.taken trace.old) (writes_line h l entry at count done).items (T.taken trace.new) }
    ensures frame { T.leads_to trace.old trace.new }
{
    let from = at.wrapping_add(done);
    let left = count - done;
    let taken = show_all(lines, l, space, from, left, trace);
    if taken == left {
        return Answer::Ret {
            r0: count,
            r1: u.r[1],
        };
    }
    if space.load_byte(from.wrapping_add(taken)).is_ok() {
        return wait_for_room(l, u, row, entry, at, count, done + taken);
    }
    Answer::Fail(Errno::EFAULT)
}

/// Writes bytes of a memory into an open file, from its place on.
fn write_bytes<S: Space>(
    f: &mut Files,
    entry: u8,
    file: &OpenFile,
    space: &S,
    at: u16,
    count: u16,
    now: u32,
) -> Moved
    requires file { IsFileOf f.old entry file.now }
    ensures done { (u : UArea) (row : Row) → result.done
        ≡ (write_of (handed f.old u row (S.image space.now)) entry at count now).done }
    ensures error { (u : UArea) (row : Row) → result.error
        ≡ (write_of (handed f.old u row (S.image space.now)) entry at count now).error }
    ensures state { (u : UArea) (row : Row) → handed f.new u row (S.image space.now)
        ≡ with_moved (handed f.old u row (S.image space.now)) entry (write_of (handed f.old u row
        (S.image space.now)) entry at count now) }
    ensures lines { f.new.lines ≡ f.old.lines }
    ensures blocks { SameRest f.old.tree.nodes f.new.tree.nodes }
{
    f.tree.nodes.see();
    let moved = f
        .tree
        .nodes
        .write_at(file.ino, file.offset, space, at, count, now);
    move_on(&mut f.table, entry, file, moved.done);
    moved
}

/// Writes to an open file, or to a line.
fn write_to<S: Space, T: Trace>(
    f: &mut Files,
    entry: u8,
    file: &OpenFile,
    u: &mut UArea,
    row: &Row,
    space: &S,
    at: u16,
    count: u16,
    now: u32,
    trace: &mut T,
) -> Answer
    requires file { IsFileOf f.old entry file.now }
    ensures answer { result ≡ (writes_to (handed f.old u.old row.now (S.image space.now)) entry at count now).answer }
    ensures state { handed f.new u.new row.now (S.image space.now)
        ≡ (writes_to (handed f.old u.old row.now (S.image space.now)) entry at count now).state }
    ensures items { Took (T.taken trace.old)
        (writes_to (handed f.old u.old row.now (S.image space.now)) entry at count now).items (T.taken trace.new) }
    ensures frame { T.leads_to trace.old trace.new }
    ensures blocks { SameRest f.old.tree.nodes f.new.tree.nodes }
{
    let line = line_at(&f.tree.nodes, &f.lines, file.ino);
    let device = is_device_at(&f.tree.nodes, file.ino);
    let moved = write_bytes(f, entry, file, space, at, count, now);
    match line {
        Some(l) => {
            let entry = u16::from(entry);
            write_line(&mut f.lines, l, entry, u, row, space, at, count, 0, trace)
        }
        None => give_count(u, taken(device, count, moved.done), moved.error),
    }
}

/// 4, write(II): of the number in R0, from a buffer. The arguments are its address and how many bytes are to be written. R0
/// takes the number of bytes that were written. The file grows where it must. What is written to a terminal line is shown byte
/// by byte, up to the first that cannot be read; with a pace the process waits before a byte where more than 50 wait to go out,
/// or until a signal comes. The null device takes all. A write to a pipe waits until all is written. The next read or write
/// begins after what was written, also after an error.
///
/// # Errors
///
/// `EBADF`: the number is not open, or not for writing. `EPIPE`: nobody can read the pipe any more; the process also has a
/// signal. Of each piece of a file, in this order. `EFBIG`: it would end past byte 16,777,215, or in a directory past byte
/// 65,520 and its present size. `ENOSPC`: no block is free. `EFAULT`: an address of the buffer cannot be read. `EINTR`: the
/// process would wait, and a signal is due.
#[tactic(auto, using(v6_base::proofs::Took::takes))]
pub fn write_file<S: Space, T: Trace>(
    f: &mut Files,
    slot: Slot,
    u: &mut UArea,
    row: &mut Row,
    space: &mut S,
    args: [u16; 4],
    now: u32,
    trace: &mut T,
) -> Answer
    requires sound { IsSound (handed f.old u.old row.old (S.image space.old)) }
    ensures does { Does (handed f.old u.old row.old (S.image space.old))
        (handed f.new u.new row.new (S.image space.new)) result (T.taken trace.old) (T.taken trace.new)
        (write_file_of (handed f.old u.old row.old (S.image space.old)) slot (slice_index args 0) (slice_index args 1) now) }
    ensures frame { T.leads_to trace.old trace.new }
    ensures memory { S.rest space.new ≡ S.rest space.old }
    ensures blocks { SameRest f.old.tree.nodes f.new.tree.nodes }
{
    let entry = match open_entry(f, u, u.r[0]) {
        Ok(entry) => entry,
        Err(e) => return Answer::Fail(e),
    };
    let file = file_of(f, entry);
    if !file.kind.writing {
        return Answer::Fail(Errno::EBADF);
    }
    if file.kind.pipe {
        let transfer = transfer_of(entry, args);
        return write_pipe(f, slot, u, row, space, transfer, now, trace);
    }
    write_to(f, entry, &file, u, row, space, args[0], args[1], now, trace)
}

/// A word with its sign, modulo 2^32.
fn extended(word: u16) -> u32
    ensures { result ≡ extended word }
{
    if word >= 0o100000 {
        u32::from(word) + 0xffff_0000
    } else {
        u32::from(word)
    }
}

/// The mode that a mode counts as.
fn seek_mode(mode: u16) -> u16
    ensures { result ≡ seek_mode mode }
{
    if mode >= 0o100000 { 2 } else { mode.min(5) }
}

/// Where a mode counts from, in bytes.
fn seek_base(nodes: &Nodes, file: &OpenFile, mode: u16) -> u32
    requires referenced { 0 < slice_index nodes.now.references file.now.ino }
    ensures { result ≡ seek_base file.now (node_in nodes.now.store file.now.ino) mode }
{
    match mode % 3 {
        0 => 0,
        1 => file.offset,
        _ => nodes.node(file.ino).size,
    }
}

/// How far an offset goes in a mode, in bytes, modulo 2^32.
fn seek_move(offset: u16, mode: u16) -> u32
    ensures { result ≡ seek_move offset mode % 2 ^ 32 }
{
    let offset = if mode % 3 == 0 {
        u32::from(offset)
    } else {
        extended(offset)
    };
    if mode >= 3 {
        offset.wrapping_mul(512)
    } else {
        offset
    }
}

/// Where an open file's next read or write begins after a seek.
fn sought(nodes: &Nodes, file: &OpenFile, offset: u16, mode: u16) -> u32
    requires referenced { 0 < slice_index nodes.now.references file.now.ino }
    ensures { result ≡ sought file.now (node_in nodes.now.store file.now.ino) offset mode }
{
    seek_base(nodes, file, mode).wrapping_add(seek_move(offset, mode))
}

/// 19, seek(II): says where the next read or write of the number in R0 begins. The arguments are an offset and a mode:
/// from the beginning (0), from where it would begin (1), from the end (2), and from 3 on the same in blocks of 512
/// bytes. But for modes 0 and 3 the offset has a sign. A mode above 5 counts as 5, and a negative one as 2.
///
/// # Errors
///
/// `EBADF`: the number is not open. `ESPIPE`: it is an end of a pipe.
#[tactic(auto, using(v6_base::proofs::Took::takes))]
pub fn seek_to<S: Space, T: Trace>(
    f: &mut Files,
    _slot: Slot,
    u: &mut UArea,
    row: &mut Row,
    space: &mut S,
    args: [u16; 4],
    _now: u32,
    trace: &mut T,
) -> Answer
    requires sound { IsSound (handed f.old u.old row.old (S.image space.old)) }
    ensures does { Does (handed f.old u.old row.old (S.image space.old))
        (handed f.new u.new row.new (S.image space.new)) result (T.taken trace.old) (T.taken trace.new)
        (seek_to (handed f.old u.old row.old (S.image space.old)) (slice_index args 0) (slice_index args 1)) }
    ensures frame { T.leads_to trace.old trace.new }
    ensures memory { S.rest space.new ≡ S.rest space.old }
    ensures blocks { SameRest f.old.tree.nodes f.new.tree.nodes }
{
    let entry = match open_entry(f, u, u.r[0]) {
        Ok(entry) => entry,
        Err(e) => return Answer::Fail(e),
    };
    let file = file_of(f, entry);
    if file.kind.pipe {
        return Answer::Fail(Errno::ESPIPE);
    }
    let offset = sought(&f.tree.nodes, &file, args[0], seek_mode(args[1]));
    f.table.set_offset(entry, offset);
    Answer::Ret {
        r0: u.r[0],
        r1: u.r[1],
    }
}
