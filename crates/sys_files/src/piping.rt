//! Pipes are made, read and written: `pipe.c` in Lions' Commentary.
ghost use Rattle.std.specs.Prelude.{◌≡◌, ◌<◌, ◌≤◌, ◌+◌, ℕ, true, IfOk, IsSome, MatchResult, Some, length, slice_index, slice_set};
ghost use Rattle.v6_base.specs.Image.{Image};
ghost use Rattle.v6_base.specs.Trace.{Took};
ghost use Rattle.proc_tab.specs.declared.row.Row.{Row};
ghost use Rattle.u_area.specs.declared.area.UArea.{UArea};
ghost use Rattle.fs_nodes.specs.FileSystem.{SameRest};
ghost use Rattle.open_files.specs.declared.file.OpenFile.{OpenFile};
ghost use Rattle.open_files.specs.Files.{file_at, free_entry, opened, AreOpen};
ghost use Rattle.sys_files.specs.Handed.{Handed, handed, with_number};
ghost use Rattle.sys_files.specs.Did.{fails, unnamed};
ghost use Rattle.sys_files.specs.Pipes.{ArePipes, place_of};
ghost use Rattle.sys_files.specs.Piping.{words_of, waits_in_pipe, pipe_at, ends_read, ends_write, breaks, woken_by_read, woken_by_write, reads_pipe, writes_pipe, reading_end, writing_end, has_opened, opens_ends, pipe_new};
ghost use Rattle.sys_files.specs.Sound.{IsSound, IsKept};
ghost use Rattle.sys_files.specs.Does.{Does};
ghost use Rattle.sys_files.specs.Entering.{did_with};

use crate::descriptors::see_entries;
use crate::entering::make_inode;
use crate::files::Files;
use crate::inodes::ROOT_DISK;
use fs_codec::IALLOC;
use fs_tree::{User, let_go, refer_again};
use open_files::FileKind;
use pipe_ends::{Pipe, Piped};
use proc_tab::Row;
use sig_core::{SIGPIPE, due, post};
use u_area::{PIPE_READ, PIPE_WRITE, UArea};
use v6_base::{Answer, Chan, Entry, Errno, Slot, Space, Trace};

/// The priority at which a process waits for a pipe: `PPIPE` in Lions' Commentary, `pipe.c`.
const PPIPE: i8 = 1;

/// The reading end of a pipe.
const READING: FileKind = FileKind {
    reading: true,
    writing: false,
    pipe: true,
};

/// The writing end of a pipe.
const WRITING: FileKind = FileKind {
    reading: false,
    writing: true,
    pipe: true,
};

/// Whose the file of a pipe is.
const NOBODY: User = User { uid: 0, gid: 0 };

/// What a read or a write of a pipe is about: the entry of the end, the address and the count as the call gave them, and how many
/// bytes are left. In a read all of them are.
#[derive(Clone, Copy)]
pub(crate) struct Transfer {
    pub(crate) entry: u16,
    pub(crate) at: u16,
    pub(crate) count: u16,
    pub(crate) left: u16,
}

/// Opens the two ends of a pipe, the reading one first, under the lowest numbers and in the lowest entries that are free.
///
/// # Errors
///
/// `EMFILE`: the fifteen numbers are used. Else `ENFILE`: the hundred open files are. Nothing has changed then.
fn add_ends(f: &mut Files, u: &mut UArea, ino: u16) -> Result<(u8, u8), Errno>
    requires { AreOpen f.old.table u.old.files }
    ensures outcome { MatchResult result
        (λ fds. (entry next : ℕ)
        × (f.new.table ≡ slice_set (slice_set f.old.table entry (Some (opened ino reading_end))) next (Some (opened ino writing_end)))
        × (u.new ≡ with_number (with_number u.old fds.0 (entry + 1)) fds.1 (next + 1))
        × ((row : Row) (image : Image) → opens_ends (handed f.old u.old row image) ino
        ≡ has_opened (handed f.old u.old row image) ino fds.0 entry fds.1 next))
        (λ e. (f.new.table ≡ f.old.table) × (u.new ≡ u.old) × ((row : Row) (image : Image)
        → opens_ends (handed f.old u.old row image) ino ≡ fails (handed f.old u.old row image) e)) }
    ensures room { IfOk result (λ fds. (entry : ℕ) × (free_entry f.old.table ≡ Some entry)) }
    ensures tree { f.new.tree ≡ f.old.tree }
    ensures lines { f.new.lines ≡ f.old.lines }
    ensures pipes { f.new.pipes ≡ f.old.pipes }
{
    let reading = f.table.add(&mut u.files, ino, READING)?;
    match f.table.add(&mut u.files, ino, WRITING) {
        Ok(writing) => Ok((reading, writing)),
        Err(e) => {
            let _ = f.table.drop_one(&mut u.files, u16::from(reading));
            Err(e)
        }
    }
}

/// Opens the two ends of a pipe, whose inode is referred to. R0 and R1 take their numbers.
fn open_ends(f: &mut Files, u: &mut UArea, ino: u16) -> Answer
    requires referenced { 0 < slice_index f.old.tree.nodes.references ino }
    requires few { slice_index f.old.tree.nodes.references ino < 65534 }
    requires open { AreOpen f.old.table u.old.files }
    requires pipes { ArePipes f.old.table f.old.pipes }
    ensures did { (row : Row) (image : Image) → opens_ends (handed f.old u.old row image) ino
        ≡ did_with (handed f.new u.new row image) result }
    ensures referenced { 0 < slice_index f.new.tree.nodes.references ino }
    ensures blocks { f.new.tree.nodes.blocks ≡ f.old.tree.nodes.blocks }
{
    see_entries(&f.table);
    match add_ends(f, u, ino) {
        Ok((reading, writing)) => {
            refer_again(&mut f.tree.nodes, ino);
            refer_again(&mut f.tree.nodes, ino);
            f.pipes.add(ino);
            Answer::Ret {
                r0: u16::from(reading),
                r1: u16::from(writing),
            }
        }
        Err(e) => Answer::Fail(e),
    }
}

/// Makes the inode of a pipe, and opens the two ends. Where they can't be opened the inode goes again.
fn make_pipe(f: &mut Files, u: &mut UArea, now: u32) -> Answer
    requires { (row : Row) (image : Image) → IsSound (handed f.old u.old row image) }
    ensures did { (row : Row) (image : Image) → unnamed (pipe_new (handed f.old u.old row image) now)
        ≡ did_with (handed f.new u.new row image) result }
    ensures kept { (row : Row) (image : Image) → IsKept (handed f.old u.old row image) (handed f.new u.new row image) }
    ensures blocks { SameRest f.old.tree.nodes f.new.tree.nodes }
{
    let ino = match make_inode(&mut f.tree.nodes, ROOT_DISK, IALLOC, NOBODY, now) {
        Ok(ino) => ino,
        Err(e) => return Answer::Fail(e),
    };
    let answer = open_ends(f, u, ino);
    let_go(&mut f.tree.nodes, ino, now);
    answer
}

/// 42, pipe(II): makes a pipe. R0 takes the number of the end that is read, and R1 that of the end that is written. Its inode is a
/// plain file without a name, of user 0 and group 0. Lions' Commentary, `pipe` in `pipe.c`.
///
/// # Errors
///
/// `ENOSPC`: no inode is free. Else `ENFILE`: a hundred inodes are referred to. Else `EMFILE`: the fifteen numbers of the process
/// are used, or all but one. Else `ENFILE`: the hundred open files are, or all but one. Nothing is left open then.
pub fn pipe_new<S: Space, T: Trace>(
    f: &mut Files,
    _slot: Slot,
    u: &mut UArea,
    row: &mut Row,
    space: &mut S,
    _args: [u16; 4],
    now: u32,
    trace: &mut T,
) -> Answer
    requires sound { IsSound (handed f.old u.old row.old (S.image space.old)) }
    ensures does { Does (handed f.old u.old row.old (S.image space.old))
        (handed f.new u.new row.new (S.image space.new)) result (T.taken trace.old) (T.taken trace.new)
        (pipe_new (handed f.old u.old row.old (S.image space.old)) now) }
    ensures frame { T.leads_to trace.old trace.new }
    ensures memory { S.rest space.new ≡ S.rest space.old }
    ensures blocks { SameRest f.old.tree.nodes f.new.tree.nodes }
{
    make_pipe(f, u, now)
}

/// Lets the process wait in a pipe, with what it needs to go on, unless a signal is due.
fn wait_in_pipe(u: &mut UArea, row: &Row, chan: Chan, pending: u8, transfer: Transfer) -> Answer
    ensures { (h : Handed) → h.u ≡ u.old → h.row ≡ row.now
        → waits_in_pipe h chan pending (words_of transfer.entry transfer.at transfer.count transfer.left)
        ≡ did_with (record h { u = u.new }) result }
{
    if due(row, u).is_some() {
        return Answer::Fail(Errno::EINTR);
    }
    u.pending = pending;
    u.call = [
        transfer.entry,
        transfer.at,
        transfer.count,
        transfer.left,
        0,
        0,
        0,
        0,
    ];
    Answer::Sleep { pri: PPIPE, chan }
}

/// Whoever waits for room in a pipe is woken, where a read has cleared the mark.
#[tactic(auto, using(v6_base::proofs::Took::took_nothing))]
fn wake_writers<T: Trace>(old: Pipe, new: Pipe, trace: &mut T)
    ensures items { Took (T.taken trace.old) (woken_by_read old new) (T.taken trace.new) }
    ensures frame { T.leads_to trace.old trace.new }
{
    if old.writer_waits && !new.writer_waits {
        trace.entry(Entry::Wake(Chan::Write(old.ino)));
    }
}

/// Whoever waits for bytes of a pipe is woken, where a write has cleared the mark.
#[tactic(auto, using(v6_base::proofs::Took::took_nothing))]
fn wake_readers<T: Trace>(old: Pipe, new: Pipe, trace: &mut T)
    ensures items { Took (T.taken trace.old) (woken_by_write old new) (T.taken trace.new) }
    ensures frame { T.leads_to trace.old trace.new }
{
    if old.reader_waits && !new.reader_waits {
        trace.entry(Entry::Wake(Chan::Read(old.ino)));
    }
}

/// Ends a read of a pipe, or lets the process wait for bytes.
fn end_read(u: &mut UArea, row: &Row, ino: u16, transfer: Transfer, piped: Piped) -> Answer
    ensures { (h : Handed) → h.u ≡ u.old → h.row ≡ row.now → ends_read h ino transfer.entry transfer.at transfer.count piped
        ≡ did_with (record h { u = u.new }) result }
{
    match piped {
        Piped::Done(n) => Answer::Ret { r0: n, r1: u.r[1] },
        Piped::Wait { .. } => {
            let kept = Transfer {
                left: 0,
                ..transfer
            };
            wait_in_pipe(u, row, Chan::Read(ino), PIPE_READ, kept)
        }
        Piped::Broken => Answer::Fail(Errno::EPIPE),
        Piped::Error(e) => Answer::Fail(e),
    }
}

/// The pipe of an end that is open in an entry.
fn pipe_at(f: &Files, entry: u16) -> Pipe
    requires used { IsSome (file_at f.now.table entry) }
    requires pipe { (file : OpenFile) → file_at f.now.table entry ≡ Some file → file.kind.pipe ≡ true }
    requires pipes { ArePipes f.now.table f.now.pipes }
    ensures pipe { (u : UArea) (row : Row) (image : Image) → result ≡ pipe_at (handed f.now u row image) entry }
    ensures there { place_of f.now.pipes result.ino < length f.now.pipes }
    ensures file { (file : OpenFile) → file_at f.now.table entry ≡ Some file → result.ino ≡ file.ino }
{
    see_entries(&f.table);
    f.pipes.get(f.table.file(entry as u8).ino)
}

/// Reads from a pipe, or waits until there are bytes.
pub(crate) fn read_pipe<S: Space, T: Trace>(
    f: &mut Files,
    u: &mut UArea,
    row: &Row,
    space: &mut S,
    transfer: Transfer,
    now: u32,
    trace: &mut T,
) -> Answer
    requires used { IsSome (file_at f.old.table transfer.entry) }
    requires pipe { (file : OpenFile) → file_at f.old.table transfer.entry ≡ Some file → file.kind.pipe ≡ true }
    requires pipes { ArePipes f.old.table f.old.pipes }
    requires referred { (file : OpenFile) → file_at f.old.table transfer.entry ≡ Some file
        → 0 < slice_index f.old.tree.nodes.references file.ino }
    ensures answer { result ≡ (reads_pipe (handed f.old u.old row.now (S.image space.old))
        transfer.entry transfer.at transfer.count now).answer }
    ensures state { handed f.new u.new row.now (S.image space.new)
        ≡ (reads_pipe (handed f.old u.old row.now (S.image space.old)) transfer.entry transfer.at transfer.count now).state }
    ensures items { Took (T.taken trace.old)
        (reads_pipe (handed f.old u.old row.now (S.image space.old)) transfer.entry transfer.at transfer.count now).items (T.taken trace.new) }
    ensures frame { T.leads_to trace.old trace.new }
    ensures memory { S.rest space.new ≡ S.rest space.old }
    ensures blocks { SameRest f.old.tree.nodes f.new.tree.nodes }
{
    let old = pipe_at(f, transfer.entry);
    let mut pipe = old;
    let piped = pipe_ends::read(
        &mut f.tree.nodes,
        &mut pipe,
        space,
        transfer.at,
        transfer.count,
        now,
    );
    f.pipes.set(pipe);
    wake_writers(old, pipe, trace);
    end_read(u, row, old.ino, transfer, piped)
}

/// The process writes to a pipe which nobody reads: it has a signal, and the call is refused.
fn break_pipe<T: Trace>(row: &mut Row, slot: Slot, trace: &mut T) -> Answer
    ensures answer { (h : Handed) → result ≡ (breaks h slot).answer }
    ensures state { (h : Handed) → h.row ≡ row.old → record h { row = row.new } ≡ (breaks h slot).state }
    ensures items { (h : Handed) → Took (T.taken trace.old) (breaks h slot).items (T.taken trace.new) }
    ensures frame { T.leads_to trace.old trace.new }
{
    let _posted = post(row, u16::from(SIGPIPE));
    trace.entry(Entry::Signal { slot, sig: SIGPIPE });
    Answer::Fail(Errno::EPIPE)
}

/// Ends a write of a pipe, or lets the process wait for room. R0 takes the whole count, also after a sleep.
#[tactic(auto, using(v6_base::proofs::Took::took_nothing))]
fn end_write<T: Trace>(
    u: &mut UArea,
    row: &mut Row,
    slot: Slot,
    ino: u16,
    transfer: Transfer,
    piped: Piped,
    trace: &mut T,
) -> Answer
    ensures answer { (h : Handed) → h.u ≡ u.old → h.row ≡ row.old
        → result ≡ (ends_write h slot ino transfer.entry transfer.at transfer.count piped).answer }
    ensures state { (h : Handed) → h.u ≡ u.old → h.row ≡ row.old → record h { u = u.new; row = row.new }
        ≡ (ends_write h slot ino transfer.entry transfer.at transfer.count piped).state }
    ensures items { (h : Handed) → Took (T.taken trace.old)
        (ends_write h slot ino transfer.entry transfer.at transfer.count piped).items (T.taken trace.new) }
    ensures frame { T.leads_to trace.old trace.new }
{
    match piped {
        Piped::Done(_) => Answer::Ret {
            r0: transfer.count,
            r1: u.r[1],
        },
        Piped::Wait { left } => {
            let kept = Transfer { left, ..transfer };
            wait_in_pipe(u, row, Chan::Write(ino), PIPE_WRITE, kept)
        }
        Piped::Broken => break_pipe(row, slot, trace),
        Piped::Error(e) => Answer::Fail(e),
    }
}

/// Writes what is left to a pipe, or waits until there is room.
pub(crate) fn write_pipe<S: Space, T: Trace>(
    f: &mut Files,
    slot: Slot,
    u: &mut UArea,
    row: &mut Row,
    space: &S,
    transfer: Transfer,
    now: u32,
    trace: &mut T,
) -> Answer
    requires used { IsSome (file_at f.old.table transfer.entry) }
    requires pipe { (file : OpenFile) → file_at f.old.table transfer.entry ≡ Some file → file.kind.pipe ≡ true }
    requires pipes { ArePipes f.old.table f.old.pipes }
    requires referred { (file : OpenFile) → file_at f.old.table transfer.entry ≡ Some file
        → 0 < slice_index f.old.tree.nodes.references file.ino }
    requires left { transfer.left ≤ transfer.count }
    ensures answer { result ≡ (writes_pipe (handed f.old u.old row.old (S.image space.now)) slot
        transfer.entry transfer.at transfer.count transfer.left now).answer }
    ensures state { handed f.new u.new row.new (S.image space.now) ≡ (writes_pipe (handed f.old u.old row.old (S.image space.now)) slot
        transfer.entry transfer.at transfer.count transfer.left now).state }
    ensures items { Took (T.taken trace.old) (writes_pipe (handed f.old u.old row.old (S.image space.now)) slot
        transfer.entry transfer.at transfer.count transfer.left now).items (T.taken trace.new) }
    ensures frame { T.leads_to trace.old trace.new }
    ensures blocks { SameRest f.old.tree.nodes f.new.tree.nodes }
{
    let old = pipe_at(f, transfer.entry);
    let mut pipe = old;
    let from = transfer.at.wrapping_add(transfer.count - transfer.left);
    let piped = pipe_ends::write(
        &mut f.tree.nodes,
        &mut pipe,
        space,
        from,
        transfer.left,
        now,
    );
    f.pipes.set(pipe);
    wake_readers(old, pipe, trace);
    end_write(u, row, slot, old.ino, transfer, piped, trace)
}
