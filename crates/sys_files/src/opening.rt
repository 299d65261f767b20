//! Files are opened: open(II); Lions' Commentary, `open1` in `sys2.c` and `falloc` in `fio.c`.
ghost use Rattle.std.specs.Prelude.{◌≡◌, ◌<◌, ◌+◌, ℕ, not, Some, MatchResult, slice_index, slice_set};
ghost use Rattle.v6_base.specs.Image.{Image};
ghost use Rattle.fs_codec.specs.Modes.{is_directory};
ghost use Rattle.fs_nodes.specs.FileSystem.{SameRest};
ghost use Rattle.fs_tree.specs.declared.user.Want.TheVariants.{Write};
ghost use Rattle.fs_tree.specs.Permission.{access};
ghost use Rattle.v6_base.specs.declared.errno.Errno.TheVariants.{EISDIR};
ghost use Rattle.proc_tab.specs.declared.row.Row.{Row};
ghost use Rattle.open_files.specs.Files.{AreOpen, opened};
ghost use Rattle.sys_files.specs.Did.{must, fails, returns};
ghost use Rattle.sys_files.specs.Handed.{Handed, handed, line_of, node_in, with_number};
ghost use Rattle.sys_files.specs.Opening.{opens_to_read, opens_to_write, or_earlier, last_failure, open_tests, can_open, with_tty, lines_opened, with_opened, opens, opens_named, open_file};
ghost use Rattle.sys_files.specs.Sound.{IsSound};
ghost use Rattle.sys_files.specs.Does.{Does};

use crate::devices::{is_line, is_null, line_at};
use crate::files::Files;
use crate::inodes::inode_of;
use crate::naming::{find_name, user_of};
use fs_codec::{is_device, is_directory};
use fs_nodes::Nodes;
use fs_tree::{Tree, User, Want, let_go, refer_again};
use lines_eight::Lines;
use open_files::FileKind;
use proc_tab::Row;
use u_area::UArea;
use v6_base::{Answer, Errno, Slot, Space, Trace};

/// Whether a mode of open opens for reading.
fn opens_to_read(mode: u16) -> bool
    ensures { result ≡ opens_to_read mode }
{
    (u32::from(mode) + 1) % 2 == 1
}

/// Whether a mode of open opens for writing.
fn opens_to_write(mode: u16) -> bool
    ensures { result ≡ opens_to_write mode }
{
    (u32::from(mode) + 1) / 2 % 2 == 1
}

/// Whether a user may do this with the file of an inode that is referred to.
///
/// # Errors
///
/// `ETXTBSY`: it is to be written, and its text is shared. Else `EACCES`: the user may not.
fn access(tree: &Tree, ino: u16, who: User, want: Want) -> Result<(), Errno>
    requires { 0 < slice_index tree.now.nodes.references ino }
    ensures { result ≡ access tree.now.marks ino (node_in tree.now.nodes.store ino) who want }
{
    tree.nodes.see();
    tree.access(ino, who, want)
}

/// The tests for writing, from the last to the first.
///
/// # Errors
///
/// `EISDIR`: the file is a directory. Else those of `access`.
fn test_writing(tree: &Tree, ino: u16, who: User) -> Result<(), Errno>
    requires { 0 < slice_index tree.now.nodes.references ino }
    ensures { result ≡ or_earlier (must EISDIR (not (is_directory (node_in tree.now.nodes.store ino).mode)))
        (access tree.now.marks ino (node_in tree.now.nodes.store ino) who Write) }
{
    if is_directory(inode_of(&tree.nodes, ino).mode) {
        return Err(Errno::EISDIR);
    }
    access(tree, ino, who, Want::Write)
}

/// The tests of open. Of those that fail the last one counts, so they are made from the last to the first.
///
/// # Errors
///
/// Those of `test_writing`, where the mode opens for writing. Else `EACCES`: the user may not read the file.
fn test_opening(tree: &Tree, ino: u16, who: User, mode: u16) -> Result<(), Errno>
    requires { 0 < slice_index tree.now.nodes.references ino }
    ensures { result ≡ last_failure (open_tests tree.now.marks ino (node_in tree.now.nodes.store ino) who mode) }
{
    if opens_to_write(mode) {
        test_writing(tree, ino, who)?;
    }
    if opens_to_read(mode) {
        access(tree, ino, who, Want::Read)?;
    }
    Ok(())
}

/// Whether the file of an inode can be opened: of the devices the terminal lines and null alone.
fn can_open(nodes: &Nodes, lines: &Lines, ino: u16) -> bool
    requires { 0 < slice_index nodes.now.references ino }
    ensures { (h : Handed) → h.lines ≡ lines.now → result ≡ can_open h (node_in nodes.now.store ino) }
{
    let inode = inode_of(nodes, ino);
    if !is_device(inode.mode) {
        return true;
    }
    is_line(lines, &inode) || is_null(&inode)
}

/// Makes a line the terminal of a process that opens it and has none.
fn take_terminal(nodes: &Nodes, lines: &Lines, row: &mut Row, ino: u16)
    requires { 0 < slice_index nodes.now.references ino }
    ensures { (h : Handed) → h.lines ≡ lines.now → row.new ≡ with_tty row.old (line_of h (node_in nodes.now.store ino)) }
{
    let line = match line_at(nodes, lines, ino) {
        Some(line) => line,
        None => return,
    };
    if row.tty == 0 {
        row.tty = line + 1;
    }
}

/// Opens a line with the first of its files.
fn open_line(nodes: &Nodes, lines: &mut Lines, ino: u16)
    requires { 0 < slice_index nodes.now.references ino }
    ensures { (h : Handed) → h.lines ≡ lines.old → lines.new ≡ lines_opened h (line_of h (node_in nodes.now.store ino)) }
{
    match line_at(nodes, lines, ino) {
        Some(line) => lines.opened(line),
        None => {}
    }
}

/// Puts an open file into the table, where the file of its inode can be opened, under the lowest number that is free.
///
/// # Errors
///
/// `EMFILE`, `ENFILE`: no number or no entry is free. Else `ENXIO`: it is a device that cannot be opened. Nothing has
/// changed then.
fn add_number(f: &mut Files, u: &mut UArea, ino: u16, kind: FileKind) -> Result<u8, Errno>
    requires referenced { 0 < slice_index f.old.tree.nodes.references ino }
    requires open { AreOpen f.old.table u.old.files }
    ensures outcome { MatchResult result
        (λ fd. (entry : ℕ) × (f.new.table ≡ slice_set f.old.table entry (Some (opened ino kind)))
        × (u.new ≡ with_number u.old fd (entry + 1)) × ((row : Row) (image : Image)
        → opens (handed f.old u.old row image) ino kind
        ≡ returns (with_opened (handed f.old u.old row image) ino kind fd entry) fd))
        (λ e. (f.new.table ≡ f.old.table) × (u.new ≡ u.old) × ((row : Row) (image : Image)
        → opens (handed f.old u.old row image) ino kind ≡ fails (handed f.old u.old row image) e)) }
    ensures tree { f.new.tree ≡ f.old.tree }
    ensures lines { f.new.lines ≡ f.old.lines }
    ensures pipes { f.new.pipes ≡ f.old.pipes }
{
    let fd = f.table.add(&mut u.files, ino, kind)?;
    if can_open(&f.tree.nodes, &f.lines, ino) {
        return Ok(fd);
    }
    let _ = f.table.drop_one(&mut u.files, u16::from(fd));
    Err(Errno::ENXIO)
}

/// Opens the file of an inode that is referred to, and refers to it once more. R0 takes the number.
///
/// # Errors
///
/// `EMFILE`: the fifteen numbers of the process are used. Else `ENFILE`: the hundred open files are. Else `ENXIO`: it
/// is a device other than a terminal line and null. Nothing has changed then.
pub(crate) fn open_found(
    f: &mut Files,
    u: &mut UArea,
    row: &mut Row,
    ino: u16,
    kind: FileKind,
) -> Answer
    requires referenced { 0 < slice_index f.old.tree.nodes.references ino }
    requires few { slice_index f.old.tree.nodes.references ino < 65535 }
    requires open { AreOpen f.old.table u.old.files }
    ensures answer { (image : Image) → result ≡ (opens (handed f.old u.old row.old image) ino kind).answer }
    ensures state { (image : Image)
        → handed f.new u.new row.new image ≡ (opens (handed f.old u.old row.old image) ino kind).state }
    ensures referenced { 0 < slice_index f.new.tree.nodes.references ino }
    ensures blocks { f.new.tree.nodes.blocks ≡ f.old.tree.nodes.blocks }
{
    match add_number(f, u, ino, kind) {
        Ok(fd) => {
            take_terminal(&f.tree.nodes, &f.lines, row, ino);
            open_line(&f.tree.nodes, &mut f.lines, ino);
            refer_again(&mut f.tree.nodes, ino);
            Answer::Ret {
                r0: u16::from(fd),
                r1: u.r[1],
            }
        }
        Err(e) => Answer::Fail(e),
    }
}

/// Opens the file of an inode that was found, where the user may.
///
/// # Errors
///
/// Those of the tests of open, and else those of the opening itself. Nothing has changed then.
fn open_named(f: &mut Files, u: &mut UArea, row: &mut Row, ino: u16, mode: u16) -> Answer
    requires referenced { 0 < slice_index f.old.tree.nodes.references ino }
    requires few { slice_index f.old.tree.nodes.references ino < 65535 }
    requires open { AreOpen f.old.table u.old.files }
    ensures answer { (image : Image) → result ≡ (opens_named (handed f.old u.old row.old image) ino mode).answer }
    ensures state { (image : Image)
        → handed f.new u.new row.new image ≡ (opens_named (handed f.old u.old row.old image) ino mode).state }
    ensures referenced { 0 < slice_index f.new.tree.nodes.references ino }
    ensures blocks { f.new.tree.nodes.blocks ≡ f.old.tree.nodes.blocks }
{
    if let Err(e) = test_opening(&f.tree, ino, user_of(u), mode) {
        return Answer::Fail(e);
    }
    let kind = FileKind {
        reading: opens_to_read(mode),
        writing: opens_to_write(mode),
        pipe: false,
    };
    open_found(f, u, row, ino, kind)
}

/// 5, open(II): opens the file of a name, `args[0]`, with a mode, `args[1]`: 0 for reading, 1 for writing, 2 for both.
/// R0 takes the number. Lions' Commentary, `open` and `open1` in `sys2.c`.
///
/// # Errors
///
/// Those of a name. Of the tests of the mode that fail the last one counts: `EACCES`: the user may not read, or may not
/// write, the file, or in its place `ETXTBSY`: its text is shared, and the mode is for writing. `EISDIR`: it is a
/// directory, and the mode is for writing. After them `EMFILE`: the fifteen numbers
/// of the process are used; `ENFILE`: the hundred open files are; `ENXIO`: it is a device other than a terminal line and
/// null.
pub fn open_file<S: Space, T: Trace>(
    f: &mut Files,
    _slot: Slot,
    u: &mut UArea,
    row: &mut Row,
    space: &mut S,
    args: [u16; 4],
    now: u32,
    trace: &mut T,
) -> Answer
    requires sound { IsSound (handed f.old u.old row.old (S.image space.old)) }
    ensures does { Does (handed f.old u.old row.old (S.image space.old))
        (handed f.new u.new row.new (S.image space.new)) result (T.taken trace.old) (T.taken trace.new)
        (open_file (handed f.old u.old row.old (S.image space.old)) (slice_index args 0) (slice_index args 1)) }
    ensures frame { T.leads_to trace.old trace.new }
    ensures memory { S.rest space.new ≡ S.rest space.old }
    ensures blocks { SameRest f.old.tree.nodes f.new.tree.nodes }
{
    let ino = match find_name(&mut f.tree, u, space, args[0]) {
        Ok(ino) => ino,
        Err(e) => return Answer::Fail(e),
    };
    let answer = open_named(f, u, row, ino, args[1]);
    let_go(&mut f.tree.nodes, ino, now);
    answer
}
