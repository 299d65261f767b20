//! Files are made: `creat` and `mknod` in Lions' Commentary, `sys2.c`, and `maknode` in `iget.c`.
ghost use Rattle.std.specs.Prelude.{◌≡◌, ◌<◌, ◌≤◌, ℕ, slice_index};
ghost use Rattle.v6_base.specs.Image.{Image};
ghost use Rattle.fs_nodes.specs.FileSystem.{SameRest};
ghost use Rattle.fs_tree.specs.Finding.{inodes_of};
ghost use Rattle.fs_tree.specs.Mounting.{AreMounts};
ghost use Rattle.mount_tab.specs.Mounted.{split_of};
ghost use Rattle.sys_files.specs.Handed.{handed};
ghost use Rattle.sys_files.specs.Sound.{IsSound};
ghost use Rattle.sys_files.specs.Does.{Does};
ghost use Rattle.sys_files.specs.Did.{is_done, unnamed};
ghost use Rattle.sys_files.specs.Making.{device_in, with_device, enters_new, makes_any, mknod_at};
ghost use Rattle.sys_files.specs.Entering.{HasEntry, SameReferences, did_of};

use crate::answers::answer_of;
use crate::entering::{Room, enter_new, find_room, make_inode};
use crate::files::Files;
use crate::inodes::disk_of;
use crate::moving::is_device_at;
use crate::naming::user_of;
use fs_codec::ILARG;
use fs_nodes::Nodes;
use fs_tree::let_go;
use proc_tab::Row;
use u_area::UArea;
use v6_base::{Answer, Errno, Slot, Space, Trace};

/// Sets the number of a device. Another file stays as it is.
fn set_device(nodes: &mut Nodes, ino: u16, device: u16)
    requires referenced { 0 < slice_index nodes.old.references ino }
    ensures inodes { inodes_of nodes.new ≡ device_in (inodes_of nodes.old) ino device }
    ensures kept { SameReferences nodes.old nodes.new }
{
    nodes.see();
    if is_device_at(nodes, ino) {
        nodes.set_device(ino, device);
    }
}

/// Enters a new inode, which takes the number of its device.
fn enter_any(
    f: &mut Files,
    u: &UArea,
    room: Room,
    ino: u16,
    device: u16,
    now: u32,
) -> Result<(), Errno>
    requires entry { HasEntry f.old.tree.nodes room.dir room.offset }
    requires disk { (split_of f.old.tree.mounts ino).0 ≡ (split_of f.old.tree.mounts room.dir).0 }
    requires referenced { 0 < slice_index f.old.tree.nodes.references ino }
    ensures did { (row : Row) (image : Image)
        → enters_new (handed f.old u.now row image) room.dir room.offset room.name ino now
        (λ h ino. is_done (with_device h ino device)) ≡ did_of (handed f.new u.now row image) result }
    ensures kept { SameReferences f.old.tree.nodes f.new.tree.nodes }
    ensures table { f.new.table ≡ f.old.table }
    ensures pipes { f.new.pipes ≡ f.old.pipes }
    ensures mounts { f.new.tree.mounts ≡ f.old.tree.mounts }
{
    enter_new(f, u, room, ino, now)?;
    set_device(&mut f.tree.nodes, ino, device);
    Ok(())
}

/// Makes an inode of any mode, which is not large, and enters it.
fn make_any(
    f: &mut Files,
    u: &UArea,
    room: Room,
    mode: u16,
    device: u16,
    now: u32,
) -> Result<(), Errno>
    requires entry { HasEntry f.old.tree.nodes room.dir room.offset }
    requires mounts { AreMounts f.old.tree.mounts f.old.tree.nodes.store }
    ensures did { (row : Row) (image : Image)
        → unnamed (makes_any mode device now (handed f.old u.now row image) room.dir room.offset room.name)
        ≡ did_of (handed f.new u.now row image) result }
    ensures kept { SameReferences f.old.tree.nodes f.new.tree.nodes }
    ensures table { f.new.table ≡ f.old.table }
    ensures pipes { f.new.pipes ≡ f.old.pipes }
    ensures mounts { f.new.tree.mounts ≡ f.old.tree.mounts }
{
    f.tree.nodes.see();
    let dev = disk_of(f, room.dir);
    let ino = make_inode(&mut f.tree.nodes, dev, mode & !ILARG, user_of(u), now)?;
    let result = enter_any(f, u, room, ino, device, now);
    let_go(&mut f.tree.nodes, ino, now);
    result
}

/// Makes the file of a new name, where the user is user 0.
fn mknod<S: Space>(
    f: &mut Files,
    u: &UArea,
    space: &S,
    name: u16,
    mode: u16,
    device: u16,
    now: u32,
) -> Result<(), Errno>
    requires directory { 0 < slice_index f.old.tree.nodes.references u.now.dir }
    requires few { (i : ℕ) → slice_index f.old.tree.nodes.references i ≤ 65530 }
    requires mounts { AreMounts f.old.tree.mounts f.old.tree.nodes.store }
    ensures did { (row : Row) → unnamed (mknod_at (handed f.old u.now row (S.image space.now)) name mode device now)
        ≡ did_of (handed f.new u.now row (S.image space.now)) result }
    ensures kept { SameReferences f.old.tree.nodes f.new.tree.nodes }
    ensures table { f.new.table ≡ f.old.table }
    ensures pipes { f.new.pipes ≡ f.old.pipes }
    ensures mounts { f.new.tree.mounts ≡ f.old.tree.mounts }
{
    if u.uid != 0 {
        return Err(Errno::EPERM);
    }
    let room = find_room(f, u, space, name, now)?;
    let result = make_any(f, u, room, mode, device, now);
    let_go(&mut f.tree.nodes, room.dir, now);
    result
}

/// 14, mknod(II): makes the file of a new name, `args[0]`, of a whole mode, `args[1]`, and where that is of a device,
/// with the device's number, `args[2]`. R0 stays.
///
/// # Errors
///
/// `EPERM`: the user is not user 0. Those of a name that may be new. `EEXIST`: there is a file of this name. `ENOSPC`:
/// no inode is free, or no block for the entry. `ENFILE`: a hundred inodes are referred to. `EFBIG`: the directory
/// would grow past 65,520 bytes. Where the entry cannot be written, the new inode is freed again.
pub fn mknod_at<S: Space, T: Trace>(
    f: &mut Files,
    _slot: Slot,
    u: &mut UArea,
    row: &mut Row,
    space: &mut S,
    args: [u16; 4],
    now: u32,
    trace: &mut T,
) -> Answer
    requires sound { IsSound (handed f.old u.old row.old (S.image space.old)) }
    ensures does { Does (handed f.old u.old row.old (S.image space.old))
        (handed f.new u.new row.new (S.image space.new)) result (T.taken trace.old) (T.taken trace.new)
        (mknod_at (handed f.old u.old row.old (S.image space.old)) (slice_index args 0) (slice_index args 1) (slice_index args 2) now) }
    ensures frame { T.leads_to trace.old trace.new }
    ensures memory { S.rest space.new ≡ S.rest space.old }
    ensures blocks { SameRest f.old.tree.nodes f.new.tree.nodes }
{
    let result = mknod(f, u, space, args[0], args[1], args[2], now);
    answer_of(u, result)
}
