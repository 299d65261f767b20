//! Descriptors are given once more and closed: `fio.c` and `sys3.c` in Lions' Commentary.
ghost use Rattle.std.specs.Prelude.{◌≡◌, ◌⊎◌, ◌<◌, true, IsSome, IfOk, IfErr, MatchResult, length, slice_index, []};
ghost use Rattle.v6_base.specs.Image.{Image};
ghost use Rattle.v6_base.specs.Trace.{Took};
ghost use Rattle.v6_base.specs.declared.errno.Errno.{Errno};
ghost use Rattle.proc_tab.specs.declared.row.Row.{Row};
ghost use Rattle.u_area.specs.declared.area.UArea.{UArea};
ghost use Rattle.fs_nodes.specs.FileSystem.{SameRest};
ghost use Rattle.open_files.specs.declared.file.OpenFile.{OpenFile};
ghost use Rattle.open_files.specs.declared.file.Closed.{Closed};
ghost use Rattle.open_files.specs.Files.{file_at, AreOpen, HaveRoom};
ghost use Rattle.sys_files.specs.Handed.{handed, file_of};
ghost use Rattle.sys_files.specs.Sound.{IsSound, IsKept};
ghost use Rattle.sys_files.specs.Does.{Does};
ghost use Rattle.sys_files.specs.Pipes.{is_end_of, has_end, place_of};
ghost use Rattle.sys_files.specs.Descriptors.{open_entry, dup_file, is_of_line, is_line_open, line_closed, with_roused, pipe_roused, with_gone, released, told_by, dropped, then_closes, close_file, close_all, AreReferred};

use crate::devices::line_at;
use crate::files::Files;
use fs_tree::let_go;
use lines_eight::tell_flushed;
use open_files::{Closed, OpenFile, OpenTable};
use proc_tab::Row;
use u_area::UArea;
use v6_base::{Answer, Chan, Entry, Errno, Slot, Space, Trace};

/// The entry of the table of open files that a number of the process names: `getf` in Lions' Commentary, `fio.c`.
///
/// # Errors
///
/// `EBADF`: the number is not open.
pub(crate) fn open_entry(f: &Files, u: &UArea, fd: u16) -> Result<u8, Errno>
    ensures entry { (row : Row) (image : Image) → result ≡ open_entry (handed f.now u.now row image) fd }
    ensures used { AreOpen f.now.table u.now.files → IfOk result (λ entry. IsSome (file_at f.now.table entry)) }
{
    f.table.get(&u.files, fd)
}

/// The open file of an entry in use.
pub(crate) fn file_of(f: &Files, entry: u8) -> OpenFile
    requires used { IsSome (file_at f.now.table entry) }
    ensures { (u : UArea) (row : Row) (image : Image) → result ≡ file_of (handed f.now u row image) entry }
{
    *f.table.file(entry)
}

/// Gives the number in R0 of the process once more.
fn dup_number(f: &mut Files, u: &mut UArea) -> Answer
    requires open { AreOpen f.old.table u.old.files }
    requires few { HaveRoom f.old.table }
    ensures answer { (row : Row) (image : Image) → result ≡ (dup_file (handed f.old u.old row image)).answer }
    ensures state { (row : Row) (image : Image)
        → handed f.new u.new row image ≡ (dup_file (handed f.old u.old row image)).state }
    ensures tree { f.new.tree ≡ f.old.tree }
{
    match f.table.dup(&mut u.files, u.r[0]) {
        Ok(fd) => Answer::Ret {
            r0: u16::from(fd),
            r1: u.r[1],
        },
        Err(e) => Answer::Fail(e),
    }
}

/// 41, dup(II): the number in R0 is given once more, as the lowest one that is free. R0 takes the new one. Lions'
/// Commentary, `dup` in `sys3.c`.
///
/// # Errors
///
/// `EBADF`: the number is not open. Else `EMFILE`: the fifteen numbers are used.
pub fn dup_file<S: Space, T: Trace>(
    f: &mut Files,
    _slot: Slot,
    u: &mut UArea,
    row: &mut Row,
    space: &mut S,
    _args: [u16; 4],
    _now: u32,
    trace: &mut T,
) -> Answer
    requires sound { IsSound (handed f.old u.old row.old (S.image space.old)) }
    ensures does { Does (handed f.old u.old row.old (S.image space.old))
        (handed f.new u.new row.new (S.image space.new)) result (T.taken trace.old) (T.taken trace.new)
        (dup_file (handed f.old u.old row.old (S.image space.old))) }
    ensures frame { T.leads_to trace.old trace.new }
    ensures memory { S.rest space.new ≡ S.rest space.old }
    ensures blocks { SameRest f.old.tree.nodes f.new.tree.nodes }
{
    dup_number(f, u)
}

/// Sees that the table has a hundred entries.
pub(crate) fn see_entries(table: &OpenTable)
    ensures { length table.now ≡ 100 }
{
    let _ = table.in_use(0);
}

/// Whether an entry is in use by a file of a line.
fn is_of_line(f: &Files, line: u8, entry: u8) -> bool
    requires { AreReferred f.now.table f.now.tree.nodes.references }
    ensures { (u : UArea) (row : Row) (image : Image)
        → result ≡ is_of_line (handed f.now u row image) line (file_at f.now.table entry) }
{
    if !f.table.in_use(entry) {
        return false;
    }
    match line_at(&f.tree.nodes, &f.lines, f.table.file(entry).ino) {
        Some(other) => other == line,
        None => false,
    }
}

/// Whether a file of a line is open.
fn is_line_open(f: &Files, line: u8) -> bool
    requires { AreReferred f.now.table f.now.tree.nodes.references }
    ensures { (u : UArea) (row : Row) (image : Image) → result ≡ is_line_open (handed f.now u row image) line }
{
    see_entries(&f.table);
    for entry in 0..100 {
        if is_of_line(f, line, entry) {
            return true;
        }
    }
    false
}

/// Closes a line with the last of its files, which was this one. The bytes that wait go out, what was typed is lost, and
/// who waits is woken.
fn close_line<T: Trace>(f: &mut Files, file: OpenFile, trace: &mut T)
    requires referenced { 0 < slice_index f.old.tree.nodes.references file.ino }
    requires others { AreReferred f.old.table f.old.tree.nodes.references }
    ensures state { (u : UArea) (row : Row) (image : Image)
        → handed f.new u row image ≡ (line_closed (handed f.old u row image) file).state }
    ensures tree { f.new.tree ≡ f.old.tree }
    ensures items { (u : UArea) (row : Row) (image : Image)
        → Took (T.taken trace.old) (line_closed (handed f.old u row image) file).items (T.taken trace.new) }
    ensures frame { T.leads_to trace.old trace.new }
{
    let line = match line_at(&f.tree.nodes, &f.lines, file.ino) {
        Some(line) => line,
        None => return,
    };
    if !is_line_open(f, line) {
        let show = f.lines.closed(line, trace);
        tell_flushed(line, show, trace);
    }
}

/// Wakes those who wait for a pipe of which an end is closed, also where the end stays open: writers, and then readers.
#[tactic(auto, using(v6_base::proofs::Took::took_nothing))]
fn rouse_pipe<T: Trace>(f: &mut Files, file: OpenFile, trace: &mut T)
    requires there { file.kind.pipe ≡ true → place_of f.old.pipes file.ino < length f.old.pipes }
    ensures state { (u : UArea) (row : Row) (image : Image)
        → handed f.new u row image ≡ with_roused (handed f.old u row image) file }
    ensures kept { file.kind.pipe ≡ true → place_of f.new.pipes file.ino < length f.new.pipes }
    ensures tree { f.new.tree ≡ f.old.tree }
    ensures table { f.new.table ≡ f.old.table }
    ensures items { Took (T.taken trace.old) (pipe_roused file) (T.taken trace.new) }
    ensures frame { T.leads_to trace.old trace.new }
{
    if file.kind.pipe {
        let mut pipe = f.pipes.get(file.ino);
        pipe.reader_waits = false;
        pipe.writer_waits = false;
        f.pipes.set(pipe);
        trace.entry(Entry::Wake(Chan::Write(file.ino)));
        trace.entry(Entry::Wake(Chan::Read(file.ino)));
    }
}

/// Whether an entry is in use by an end of the pipe of an inode.
fn is_end_of(table: &OpenTable, entry: u8, ino: u16) -> bool
    ensures { result ≡ is_end_of ino (file_at table.now entry) }
{
    if !table.in_use(entry) {
        return false;
    }
    let file = table.file(entry);
    file.kind.pipe && file.ino == ino
}

/// Whether an end of the pipe of an inode is open.
fn has_end(table: &OpenTable, ino: u16) -> bool
    ensures { result ≡ has_end table.now ino }
{
    see_entries(table);
    for entry in 0..100 {
        if is_end_of(table, entry, ino) {
            return true;
        }
    }
    false
}

/// Lets a pipe go with the last of its ends.
fn drop_pipe(f: &mut Files, file: OpenFile)
    requires there { file.kind.pipe ≡ true → place_of f.old.pipes file.ino < length f.old.pipes }
    ensures state { (u : UArea) (row : Row) (image : Image)
        → handed f.new u row image ≡ with_gone (handed f.old u row image) file }
    ensures tree { f.new.tree ≡ f.old.tree }
    ensures table { f.new.table ≡ f.old.table }
{
    if file.kind.pipe && !has_end(&f.table, file.ino) {
        f.pipes.remove(file.ino);
    }
}

/// Lets go what a file has that a number has let go: who waits for its pipe is woken, and with its last number go the pipe, the
/// line, and the reference to its inode.
fn release<T: Trace>(f: &mut Files, told: Closed, now: u32, trace: &mut T)
    requires referenced { (file : OpenFile) → told ≡ Closed.Last file
        → 0 < slice_index f.old.tree.nodes.references file.ino }
    requires others { AreReferred f.old.table f.old.tree.nodes.references }
    requires pipe { (file : OpenFile) → told ≡ Closed.Still file ⊎ told ≡ Closed.Last file → file.kind.pipe ≡ true
        → place_of f.old.pipes file.ino < length f.old.pipes }
    ensures state { (u : UArea) (row : Row) (image : Image)
        → handed f.new u row image ≡ (released (handed f.old u row image) told).state }
    ensures items { (u : UArea) (row : Row) (image : Image)
        → Took (T.taken trace.old) (released (handed f.old u row image) told).items (T.taken trace.new) }
    ensures frame { T.leads_to trace.old trace.new }
    ensures blocks { SameRest f.old.tree.nodes f.new.tree.nodes }
{
    match told {
        Closed::Still(file) => rouse_pipe(f, file, trace),
        Closed::Last(file) => {
            rouse_pipe(f, file, trace);
            drop_pipe(f, file);
            close_line(f, file, trace);
            let_go(&mut f.tree.nodes, file.ino, now);
        }
    }
}

/// Lets a number of the process name no file.
///
/// # Errors
///
/// `EBADF`: it names none. Nothing has changed then.
fn drop_number(f: &mut Files, u: &mut UArea, fd: u16) -> Result<Closed, Errno>
    requires { AreOpen f.old.table u.old.files }
    ensures outcome { MatchResult result
        (λ told. (0 < slice_index u.old.files fd) × ((row : Row) (image : Image)
        → (told ≡ told_by (handed f.old u.old row image) fd)
        × (handed f.new u.new row image ≡ dropped (handed f.old u.old row image) fd)))
        (λ e. (e ≡ Errno.EBADF) × (slice_index u.old.files fd ≡ 0) × (f.new ≡ f.old) × (u.new ≡ u.old)) }
    ensures tree { f.new.tree ≡ f.old.tree }
{
    f.table.drop_one(&mut u.files, fd)
}

/// Closes a number of the process.
///
/// # Errors
///
/// `EBADF`: it is not open. Nothing has changed then.
fn close_number<T: Trace>(
    f: &mut Files,
    u: &mut UArea,
    fd: u16,
    now: u32,
    trace: &mut T,
) -> Result<(), Errno>
    requires { (row : Row) (image : Image) → IsSound (handed f.old u.old row image) }
    ensures done { IfOk result (λ _. 0 < slice_index u.old.files fd) }
    ensures error { IfErr result (λ e. (e ≡ Errno.EBADF) × (slice_index u.old.files fd ≡ 0)) }
    ensures state { (row : Row) (image : Image) → handed f.new u.new row image
        ≡ (then_closes (record { state = handed f.old u.old row image; items = [] }) fd).state }
    ensures items { (row : Row) (image : Image) → Took (T.taken trace.old)
        (then_closes (record { state = handed f.old u.old row image; items = [] }) fd).items (T.taken trace.new) }
    ensures frame { T.leads_to trace.old trace.new }
    ensures blocks { SameRest f.old.tree.nodes f.new.tree.nodes }
{
    let told = drop_number(f, u, fd)?;
    release(f, told, now, trace);
    Ok(())
}

/// 6, close(II): the number in R0 is closed. Lions' Commentary, `close` in `sys2.c` and `closef` in `fio.c`.
///
/// # Errors
///
/// `EBADF`: it is not open.
pub fn close_file<S: Space, T: Trace>(
    f: &mut Files,
    _slot: Slot,
    u: &mut UArea,
    row: &mut Row,
    space: &mut S,
    _args: [u16; 4],
    now: u32,
    trace: &mut T,
) -> Answer
    requires sound { IsSound (handed f.old u.old row.old (S.image space.old)) }
    ensures does { Does (handed f.old u.old row.old (S.image space.old))
        (handed f.new u.new row.new (S.image space.new)) result (T.taken trace.old) (T.taken trace.new)
        (close_file (handed f.old u.old row.old (S.image space.old))) }
    ensures frame { T.leads_to trace.old trace.new }
    ensures memory { S.rest space.new ≡ S.rest space.old }
    ensures blocks { SameRest f.old.tree.nodes f.new.tree.nodes }
{
    let fd = u.r[0];
    match close_number(f, u, fd, now, trace) {
        Ok(()) => Answer::Ret { r0: fd, r1: u.r[1] },
        Err(e) => Answer::Fail(e),
    }
}

/// Closes all numbers of a process, in order, as it ends: exit(II). Lions' Commentary, `exit` in `sys1.c`.
pub fn close_all<T: Trace>(f: &mut Files, u: &mut UArea, now: u32, trace: &mut T)
    requires sound { (row : Row) (image : Image) → IsSound (handed f.old u.old row image) }
    ensures state { (row : Row) (image : Image)
        → handed f.new u.new row image ≡ (close_all (handed f.old u.old row image)).state }
    ensures items { (row : Row) (image : Image)
        → Took (T.taken trace.old) (close_all (handed f.old u.old row image)).items (T.taken trace.new) }
    ensures kept { (row : Row) (image : Image)
        → IsKept (handed f.old u.old row image) (handed f.new u.new row image) }
    ensures frame { T.leads_to trace.old trace.new }
    ensures blocks { SameRest f.old.tree.nodes f.new.tree.nodes }
{
    for fd in 0..15 {
        let _ = close_number(f, u, fd, now, trace);
    }
}
