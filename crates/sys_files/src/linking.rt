//! Files get other names, and lose them: `link` in Lions' Commentary, `sys2.c`, and `unlink` in `sys4.c`.
ghost use Rattle.std.specs.Prelude.{◌≡◌, ◌<◌, ◌≤◌, ◌==◌, ℕ, true, slice_index};
ghost use Rattle.v6_base.specs.Image.{Image};
ghost use Rattle.proc_tab.specs.declared.row.Row.{Row};
ghost use Rattle.fs_codec.specs.Modes.{is_directory};
ghost use Rattle.fs_nodes.specs.FileSystem.{SameRest};
ghost use Rattle.fs_tree.specs.Mounting.{AreMounts};
ghost use Rattle.mount_tab.specs.Mounted.{split_of};
ghost use Rattle.u_area.specs.declared.area.UArea.{UArea};
ghost use Rattle.sys_files.specs.Handed.{handed, disk_of, node_in};
ghost use Rattle.sys_files.specs.Sound.{IsSound};
ghost use Rattle.sys_files.specs.Did.{unnamed};
ghost use Rattle.sys_files.specs.Does.{Does};
ghost use Rattle.sys_files.specs.Making.{may_link, is_covered, enters_again, links_to, link_file, empties, unlink_file};
ghost use Rattle.sys_files.specs.Entering.{HasEntry, SameReferences, did_of};

use crate::answers::answer_of;
use crate::entering::{Room, empty, enter, find_room, find_to_remove, links_of, set_links};
use crate::files::Files;
use crate::inodes::inode_of;
use crate::naming::find_name;
use fs_codec::is_directory;
use fs_nodes::Nodes;
use fs_tree::let_go;
use proc_tab::Row;
use u_area::UArea;
use v6_base::{Answer, Errno, Slot, Space, Trace};

/// The number of links at which an inode gets no more.
const MOST_LINKS: u8 = 127;

/// Whether an inode is a directory.
pub(crate) fn is_directory_at(nodes: &Nodes, ino: u16) -> bool
    requires referenced { 0 < slice_index nodes.now.references ino }
    ensures { result ≡ is_directory (node_in nodes.now.store ino).mode }
{
    is_directory(inode_of(nodes, ino).mode)
}

/// Whether a process may link and unlink the file of an inode: of a directory only user 0 may.
fn may_link(f: &Files, u: &UArea, ino: u16) -> bool
    requires referenced { 0 < slice_index f.now.tree.nodes.references ino }
    ensures { (row : Row) (image : Image) → result ≡ may_link (handed f.now u.now row image) ino }
{
    !is_directory_at(&f.tree.nodes, ino) || u.uid == 0
}

/// Whether two inodes are of one disk.
fn is_one_disk(f: &Files, ino: u16, dir: u16) -> bool
    ensures same { result ≡ true → (split_of f.now.tree.mounts ino).0 ≡ (split_of f.now.tree.mounts dir).0 }
    ensures is { (u : UArea) (row : Row) (image : Image)
        → result ≡ (disk_of (handed f.now u row image) ino == disk_of (handed f.now u row image) dir) }
{
    f.tree.mounts.split(ino).0 == f.tree.mounts.split(dir).0
}

/// Whether the second disk covers a directory.
fn is_covered(f: &Files, ino: u16) -> bool
    ensures { (u : UArea) (row : Row) (image : Image) → result ≡ is_covered (handed f.now u row image) ino }
{
    match f.tree.mounts.covered() {
        Some(covered) => covered == ino,
        None => false,
    }
}

/// Enters an inode under a name that it does not have yet.
fn enter_again(f: &mut Files, u: &UArea, room: Room, ino: u16, now: u32) -> Result<(), Errno>
    requires entry { HasEntry f.old.tree.nodes room.dir room.offset }
    requires referenced { 0 < slice_index f.old.tree.nodes.references ino }
    requires few { (node_in f.old.tree.nodes.store ino).nlink < 127 }
    ensures did { (row : Row) (image : Image)
        → enters_again ino now (handed f.old u.now row image) room.dir room.offset room.name
        ≡ did_of (handed f.new u.now row image) result }
    ensures kept { SameReferences f.old.tree.nodes f.new.tree.nodes }
    ensures table { f.new.table ≡ f.old.table }
    ensures pipes { f.new.pipes ≡ f.old.pipes }
    ensures mounts { f.new.tree.mounts ≡ f.old.tree.mounts }
{
    if !is_one_disk(f, ino, room.dir) {
        return Err(Errno::EXDEV);
    }
    enter(&mut f.tree, room.dir, room.offset, room.name, ino, now)?;
    let nlink = links_of(&f.tree.nodes, ino);
    set_links(&mut f.tree.nodes, ino, nlink + 1, now);
    Ok(())
}

/// Gives a file that was found another name.
fn link_to<S: Space>(
    f: &mut Files,
    u: &UArea,
    space: &S,
    ino: u16,
    name: u16,
    now: u32,
) -> Result<(), Errno>
    requires referenced { 0 < slice_index f.old.tree.nodes.references ino }
    requires directory { 0 < slice_index f.old.tree.nodes.references u.now.dir }
    requires few { (i : ℕ) → slice_index f.old.tree.nodes.references i ≤ 65530 }
    requires mounts { AreMounts f.old.tree.mounts f.old.tree.nodes.store }
    ensures did { (row : Row) → unnamed (links_to name now (handed f.old u.now row (S.image space.now)) ino)
        ≡ did_of (handed f.new u.now row (S.image space.now)) result }
    ensures kept { SameReferences f.old.tree.nodes f.new.tree.nodes }
    ensures table { f.new.table ≡ f.old.table }
    ensures pipes { f.new.pipes ≡ f.old.pipes }
    ensures mounts { f.new.tree.mounts ≡ f.old.tree.mounts }
{
    if links_of(&f.tree.nodes, ino) >= MOST_LINKS {
        return Err(Errno::EMLINK);
    }
    if !may_link(f, u, ino) {
        return Err(Errno::EPERM);
    }
    let room = find_room(f, u, space, name, now)?;
    let result = enter_again(f, u, room, ino, now);
    let_go(&mut f.tree.nodes, room.dir, now);
    result
}

/// Gives the file of a name another name.
fn link<S: Space>(
    f: &mut Files,
    u: &UArea,
    space: &S,
    name: u16,
    new: u16,
    now: u32,
) -> Result<(), Errno>
    requires directory { 0 < slice_index f.old.tree.nodes.references u.now.dir }
    requires few { (i : ℕ) → slice_index f.old.tree.nodes.references i ≤ 65500 }
    requires mounts { AreMounts f.old.tree.mounts f.old.tree.nodes.store }
    ensures did { (row : Row) → unnamed (link_file (handed f.old u.now row (S.image space.now)) name new now)
        ≡ did_of (handed f.new u.now row (S.image space.now)) result }
    ensures kept { SameReferences f.old.tree.nodes f.new.tree.nodes }
    ensures table { f.new.table ≡ f.old.table }
    ensures pipes { f.new.pipes ≡ f.old.pipes }
    ensures mounts { f.new.tree.mounts ≡ f.old.tree.mounts }
{
    let ino = find_name(&mut f.tree, u, space, name)?;
    let result = link_to(f, u, space, ino, new, now);
    let_go(&mut f.tree.nodes, ino, now);
    result
}

/// 9, link(II): gives the file of a name, `args[0]`, another name, `args[1]`. R0 stays.
///
/// # Errors
///
/// Those of the first name. `EMLINK`: the file has 127 links already. `EPERM`: it is a directory, and the user is not
/// user 0. Then those of a name that may be new. `EEXIST`: there is a file of the second name. `EXDEV`: its directory
/// is on the other disk. `EFBIG`: its directory would grow past 65,520 bytes. `ENOSPC`: no block is free for its entry.
pub fn link_file<S: Space, T: Trace>(
    f: &mut Files,
    _slot: Slot,
    u: &mut UArea,
    row: &mut Row,
    space: &mut S,
    args: [u16; 4],
    now: u32,
    trace: &mut T,
) -> Answer
    requires sound { IsSound (handed f.old u.old row.old (S.image space.old)) }
    ensures does { Does (handed f.old u.old row.old (S.image space.old))
        (handed f.new u.new row.new (S.image space.new)) result (T.taken trace.old) (T.taken trace.new)
        (link_file (handed f.old u.old row.old (S.image space.old)) (slice_index args 0) (slice_index args 1) now) }
    ensures frame { T.leads_to trace.old trace.new }
    ensures memory { S.rest space.new ≡ S.rest space.old }
    ensures blocks { SameRest f.old.tree.nodes f.new.tree.nodes }
{
    let result = link(f, u, space, args[0], args[1], now);
    answer_of(u, result)
}

/// Empties the entry of an inode in a directory, and takes a link from the inode.
fn remove_entry(
    f: &mut Files,
    u: &UArea,
    dir: u16,
    offset: u32,
    ino: u16,
    now: u32,
) -> Result<(), Errno>
    requires entry { HasEntry f.old.tree.nodes dir offset }
    requires referenced { 0 < slice_index f.old.tree.nodes.references ino }
    ensures did { (row : Row) (image : Image) → empties now (handed f.old u.now row image) dir offset ino
        ≡ did_of (handed f.new u.now row image) result }
    ensures kept { SameReferences f.old.tree.nodes f.new.tree.nodes }
    ensures table { f.new.table ≡ f.old.table }
    ensures pipes { f.new.pipes ≡ f.old.pipes }
    ensures mounts { f.new.tree.mounts ≡ f.old.tree.mounts }
{
    if !may_link(f, u, ino) {
        return Err(Errno::EPERM);
    }
    if is_covered(f, ino) {
        return Err(Errno::EBUSY);
    }
    empty(&mut f.tree, dir, offset, now)?;
    let nlink = links_of(&f.tree.nodes, ino);
    set_links(&mut f.tree.nodes, ino, nlink.saturating_sub(1), now);
    Ok(())
}

/// Removes a name of a file.
fn unlink<S: Space>(f: &mut Files, u: &UArea, space: &S, name: u16, now: u32) -> Result<(), Errno>
    requires directory { 0 < slice_index f.old.tree.nodes.references u.now.dir }
    requires few { (i : ℕ) → slice_index f.old.tree.nodes.references i ≤ 65530 }
    requires mounts { AreMounts f.old.tree.mounts f.old.tree.nodes.store }
    ensures did { (row : Row) → unnamed (unlink_file (handed f.old u.now row (S.image space.now)) name now)
        ≡ did_of (handed f.new u.now row (S.image space.now)) result }
    ensures kept { SameReferences f.old.tree.nodes f.new.tree.nodes }
    ensures table { f.new.table ≡ f.old.table }
    ensures pipes { f.new.pipes ≡ f.old.pipes }
    ensures mounts { f.new.tree.mounts ≡ f.old.tree.mounts }
{
    let (dir, offset, ino) = find_to_remove(&mut f.tree, u, space, name)?;
    let result = remove_entry(f, u, dir, offset, ino, now);
    let_go(&mut f.tree.nodes, dir, now);
    let_go(&mut f.tree.nodes, ino, now);
    result
}

/// 10, unlink(II): removes a name, `args[0]`. The file goes with its last name and its last reference. R0 stays.
///
/// # Errors
///
/// Those of a name, but for its last component: where it is found, `EACCES`, where the user may not write the
/// directory, and then `ENOENT`, where its inode is free. `EPERM`: the file is a directory, and the user is not user 0.
/// `EBUSY`: it is the directory that the second disk covers.
pub fn unlink_file<S: Space, T: Trace>(
    f: &mut Files,
    _slot: Slot,
    u: &mut UArea,
    row: &mut Row,
    space: &mut S,
    args: [u16; 4],
    now: u32,
    trace: &mut T,
) -> Answer
    requires sound { IsSound (handed f.old u.old row.old (S.image space.old)) }
    ensures does { Does (handed f.old u.old row.old (S.image space.old))
        (handed f.new u.new row.new (S.image space.new)) result (T.taken trace.old) (T.taken trace.new)
        (unlink_file (handed f.old u.old row.old (S.image space.old)) (slice_index args 0) now) }
    ensures frame { T.leads_to trace.old trace.new }
    ensures memory { S.rest space.new ≡ S.rest space.old }
    ensures blocks { SameRest f.old.tree.nodes f.new.tree.nodes }
{
    let result = unlink(f, u, space, args[0], now);
    answer_of(u, result)
}
