//! Files are created: creat(II), and `creat` and `open1` in Lions' Commentary, `sys2.c`.
ghost use Rattle.std.specs.Prelude.{◌≡◌, ◌<◌, ◌≤◌, ℕ, not, slice_index};
ghost use Rattle.v6_base.specs.declared.errno.Errno.TheVariants.{EISDIR};
ghost use Rattle.v6_base.specs.Image.{Image};
ghost use Rattle.open_files.specs.Files.{AreOpen};
ghost use Rattle.fs_codec.specs.Modes.{is_directory};
ghost use Rattle.fs_nodes.specs.FileSystem.{SameRest};
ghost use Rattle.fs_tree.specs.Finding.{inodes_of};
ghost use Rattle.fs_tree.specs.Mounting.{AreMounts};
ghost use Rattle.mount_tab.specs.Mounted.{split_of};
ghost use Rattle.sys_files.specs.Handed.{handed, node_in};
ghost use Rattle.sys_files.specs.Pipes.{ArePipes};
ghost use Rattle.sys_files.specs.Sound.{IsSound, IsKept};
ghost use Rattle.sys_files.specs.Does.{Does};
ghost use Rattle.sys_files.specs.Did.{must, unnamed};
ghost use Rattle.sys_files.specs.Making.{truncated_in, opens_for_writing, opens_again, enters_new, makes_file, creat_file};
ghost use Rattle.sys_files.specs.Entering.{HasEntry, SameReferences, did_with};

use crate::entering::{Room, enter_new, find_to_make, make_inode};
use crate::files::Files;
use crate::inodes::{disk_of, inode_of};
use crate::naming::user_of;
use crate::opening::open_found;
use fs_codec::is_directory;
use fs_nodes::Nodes;
use fs_tree::{Made, Want, let_go};
use open_files::FileKind;
use proc_tab::Row;
use u_area::UArea;
use v6_base::{Answer, Errno, Slot, Space, Trace};

/// The bits of a mode that a new file takes: those of chmod(II) without the sticky one.
const PERMISSIONS: u16 = 0o6777;

/// A file that is open for writing.
const WRITING: FileKind = FileKind {
    reading: false,
    writing: true,
    pipe: false,
};

/// Whether the file of an inode is no directory.
///
/// # Errors
///
/// `EISDIR`: it is one.
fn test_file(nodes: &Nodes, ino: u16) -> Result<(), Errno>
    requires { 0 < slice_index nodes.now.references ino }
    ensures { result ≡ must EISDIR (not (is_directory (node_in nodes.now.store ino).mode)) }
{
    if is_directory(inode_of(nodes, ino).mode) {
        return Err(Errno::EISDIR);
    }
    Ok(())
}

/// Gives all blocks of a file back.
pub(crate) fn truncate(nodes: &mut Nodes, ino: u16, now: u32)
    requires referenced { 0 < slice_index nodes.old.references ino }
    ensures inodes { inodes_of nodes.new ≡ truncated_in (inodes_of nodes.old) ino now }
    ensures kept { SameReferences nodes.old nodes.new }
{
    nodes.see();
    nodes.truncate(ino, now);
}

/// Opens the file of an inode for writing.
fn open_to_write(f: &mut Files, u: &mut UArea, row: &mut Row, ino: u16) -> Answer
    requires referenced { 0 < slice_index f.old.tree.nodes.references ino }
    requires few { slice_index f.old.tree.nodes.references ino < 65535 }
    requires mounts { AreMounts f.old.tree.mounts f.old.tree.nodes.store }
    requires open { AreOpen f.old.table u.old.files }
    requires pipes { ArePipes f.old.table f.old.pipes }
    ensures did { (image : Image) → opens_for_writing (handed f.old u.old row.old image) ino
        ≡ did_with (handed f.new u.new row.new image) result }
    ensures kept { (image : Image) → IsKept (handed f.old u.old row.old image) (handed f.new u.new row.new image) }
    ensures more { (i : ℕ)
        → slice_index f.old.tree.nodes.references i ≤ slice_index f.new.tree.nodes.references i }
    ensures blocks { SameRest f.old.tree.nodes f.new.tree.nodes }
{
    open_found(f, u, row, ino, WRITING)
}

/// Empties a file that is there, and opens it for writing.
fn open_again(f: &mut Files, u: &mut UArea, row: &mut Row, ino: u16, now: u32) -> Answer
    requires referenced { 0 < slice_index f.old.tree.nodes.references ino }
    requires few { slice_index f.old.tree.nodes.references ino < 65535 }
    requires mounts { AreMounts f.old.tree.mounts f.old.tree.nodes.store }
    requires open { AreOpen f.old.table u.old.files }
    requires pipes { ArePipes f.old.table f.old.pipes }
    ensures did { (image : Image) → opens_again now (handed f.old u.old row.old image) ino
        ≡ did_with (handed f.new u.new row.new image) result }
    ensures kept { (image : Image) → IsKept (handed f.old u.old row.old image) (handed f.new u.new row.new image) }
    ensures more { (i : ℕ)
        → slice_index f.old.tree.nodes.references i ≤ slice_index f.new.tree.nodes.references i }
    ensures blocks { SameRest f.old.tree.nodes f.new.tree.nodes }
{
    f.tree.nodes.see();
    if let Err(e) = f.tree.access(ino, user_of(u), Want::Write) {
        return Answer::Fail(e);
    }
    if let Err(e) = test_file(&f.tree.nodes, ino) {
        return Answer::Fail(e);
    }
    truncate(&mut f.tree.nodes, ino, now);
    open_to_write(f, u, row, ino)
}

/// Enters a new file, and opens it for writing.
fn enter_file(f: &mut Files, u: &mut UArea, row: &mut Row, room: Room, ino: u16, now: u32) -> Answer
    requires entry { HasEntry f.old.tree.nodes room.dir room.offset }
    requires disk { (split_of f.old.tree.mounts ino).0 ≡ (split_of f.old.tree.mounts room.dir).0 }
    requires referenced { 0 < slice_index f.old.tree.nodes.references ino }
    requires few { slice_index f.old.tree.nodes.references ino < 65535 }
    requires mounts { AreMounts f.old.tree.mounts f.old.tree.nodes.store }
    requires open { AreOpen f.old.table u.old.files }
    requires pipes { ArePipes f.old.table f.old.pipes }
    ensures did { (image : Image) → enters_new (handed f.old u.old row.old image) room.dir room.offset room.name ino now
        opens_for_writing
        ≡ did_with (handed f.new u.new row.new image) result }
    ensures kept { (image : Image) → IsKept (handed f.old u.old row.old image) (handed f.new u.new row.new image) }
    ensures more { (i : ℕ)
        → slice_index f.old.tree.nodes.references i ≤ slice_index f.new.tree.nodes.references i }
    ensures blocks { SameRest f.old.tree.nodes f.new.tree.nodes }
{
    match enter_new(f, u, room, ino, now) {
        Ok(()) => open_to_write(f, u, row, ino),
        Err(e) => Answer::Fail(e),
    }
}

/// Makes a file of a mode, enters it and opens it for writing.
fn make_file(f: &mut Files, u: &mut UArea, row: &mut Row, room: Room, mode: u16, now: u32) -> Answer
    requires entry { HasEntry f.old.tree.nodes room.dir room.offset }
    requires few { (i : ℕ) → slice_index f.old.tree.nodes.references i ≤ 65530 }
    requires mounts { AreMounts f.old.tree.mounts f.old.tree.nodes.store }
    requires open { AreOpen f.old.table u.old.files }
    requires pipes { ArePipes f.old.table f.old.pipes }
    ensures did { (image : Image)
        → unnamed (makes_file mode now (handed f.old u.old row.old image) room.dir room.offset room.name)
        ≡ did_with (handed f.new u.new row.new image) result }
    ensures kept { (image : Image) → IsKept (handed f.old u.old row.old image) (handed f.new u.new row.new image) }
    ensures more { (i : ℕ)
        → slice_index f.old.tree.nodes.references i ≤ slice_index f.new.tree.nodes.references i }
    ensures blocks { SameRest f.old.tree.nodes f.new.tree.nodes }
{
    f.tree.nodes.see();
    let dev = disk_of(f, room.dir);
    let ino = match make_inode(&mut f.tree.nodes, dev, mode & PERMISSIONS, user_of(u), now) {
        Ok(ino) => ino,
        Err(e) => return Answer::Fail(e),
    };
    let answer = enter_file(f, u, row, room, ino, now);
    let_go(&mut f.tree.nodes, ino, now);
    answer
}

/// 8, creat(II): opens the file of a name, `args[0]`, for writing. A file that is there gives its blocks back first.
/// Else a new file is made of a mode, `args[1]`, without the sticky bit. R0 takes the number.
///
/// # Errors
///
/// Those of a name that may be new. Where the file is there: `ETXTBSY`: its text is shared; `EACCES`: the user may not
/// write it; `EISDIR`: it is a directory. Where it is new: `ENOSPC`: no inode is free, or no block for the entry; `ENFILE`: a hundred inodes are
/// referred to; `EFBIG`: the directory would grow past 65,520 bytes. Where the entry cannot be written, the new inode
/// is freed again. Then those of the opening: `EMFILE`, `ENFILE`, `ENXIO`; the truncation, or the new file, stays.
pub fn creat_file<S: Space, T: Trace>(
    f: &mut Files,
    _slot: Slot,
    u: &mut UArea,
    row: &mut Row,
    space: &mut S,
    args: [u16; 4],
    now: u32,
    trace: &mut T,
) -> Answer
    requires sound { IsSound (handed f.old u.old row.old (S.image space.old)) }
    ensures does { Does (handed f.old u.old row.old (S.image space.old))
        (handed f.new u.new row.new (S.image space.new)) result (T.taken trace.old) (T.taken trace.new)
        (creat_file (handed f.old u.old row.old (S.image space.old)) (slice_index args 0) (slice_index args 1) now) }
    ensures frame { T.leads_to trace.old trace.new }
    ensures memory { S.rest space.new ≡ S.rest space.old }
    ensures blocks { SameRest f.old.tree.nodes f.new.tree.nodes }
{
    let made = match find_to_make(&mut f.tree, u, space, args[0]) {
        Ok(made) => made,
        Err(e) => return Answer::Fail(e),
    };
    match made {
        Made::Found(ino) => {
            let answer = open_again(f, u, row, ino, now);
            let_go(&mut f.tree.nodes, ino, now);
            answer
        }
        Made::Room { dir, offset, name } => {
            let room = Room { dir, offset, name };
            let answer = make_file(f, u, row, room, args[1], now);
            let_go(&mut f.tree.nodes, dir, now);
            answer
        }
    }
}
