//! The second disk is mounted on a directory, and unmounted: `smount`, `sumount` and `getmdev` in Lions' Commentary, `sys3.c`.
ghost use Rattle.std.specs.Prelude.{◌≡◌, ◌≢◌, ◌<◌, ◌≤◌, ◌+◌, ◌==◌, ◌&&◌, ◌||◌, ℕ, true, is_none, slice_index};
ghost use Rattle.std.specs.Prelude.{Some, None};
ghost use Rattle.v6_base.specs.Image.{Image};
ghost use Rattle.proc_tab.specs.declared.row.Row.{Row};
ghost use Rattle.fs_codec.specs.Store.{Node};
ghost use Rattle.fs_nodes.specs.FileSystem.{SameRest, Shows, IsFileSystem};
ghost use Rattle.fs_tree.specs.Mounting.{AreMounts};
ghost use Rattle.mount_tab.specs.Mounted.{has_second};
ghost use Rattle.u_area.specs.declared.area.UArea.{UArea};
ghost use Rattle.sys_files.specs.Handed.{handed, let_go};
ghost use Rattle.sys_files.specs.Sound.{IsSound, IsKept};
ghost use Rattle.sys_files.specs.Does.{Does};
ghost use Rattle.sys_files.specs.Did.{unnamed};
ghost use Rattle.sys_files.specs.Entering.{one_to, did_of};
ghost use Rattle.sys_files.specs.Mounting.{is_block_device, is_disk, disk_named, can_cover, covers, mounts_disk, mounts_found, mount_on};
ghost use Rattle.sys_files.specs.Mounting.{is_held, unmounts, umount_off};

use crate::answers::answer_of;
use crate::files::Files;
use crate::inodes::inode_of;
use crate::linking::is_directory_at;
use crate::naming::find_name;
use fs_codec::{DiskNode, IFBLK, file_type};
use fs_tree::let_go;
use proc_tab::Row;
use u_area::UArea;
use v6_base::{Answer, Errno, Slot, Space, Trace};

/// The number of the second disk. The root's is 0.
const SECOND_DISK: u16 = 1;

/// Whether an inode is a block device.
fn is_block_device(inode: &DiskNode) -> bool
    ensures { (node : Node) → Shows inode.now node → result ≡ is_block_device node }
{
    file_type(inode.mode) == IFBLK
}

/// The number of a device.
fn device_number(inode: &DiskNode) -> u16
    ensures { result ≡ slice_index inode.now.addr 0 }
{
    inode.addr[0]
}

/// Whether there is a disk of a number: 0 is the root's, and 1 the second one.
fn is_disk(f: &Files, device: u16) -> bool
    ensures { (u : UArea) (row : Row) (image : Image) → result ≡ is_disk (handed f.now u row image) device }
{
    let has_second = f.tree.mounts.has_second();
    device == 0 || device == SECOND_DISK && has_second
}

/// The disk of a special file.
///
/// # Errors
///
/// `ENOTBLK`: it is no block device. `ENXIO`: there is no disk of its number.
fn disk_named(f: &Files, special: u16) -> Result<u16, Errno>
    requires referenced { 0 < slice_index f.now.tree.nodes.references special }
    ensures { (u : UArea) (row : Row) (image : Image) → result ≡ disk_named (handed f.now u row image) special }
{
    let inode = inode_of(&f.tree.nodes, special);
    if !is_block_device(&inode) {
        return Err(Errno::ENOTBLK);
    }
    let device = device_number(&inode);
    if !is_disk(f, device) {
        return Err(Errno::ENXIO);
    }
    Ok(device)
}

/// Whether a disk can be mounted on an inode to which the call refers: the second one, which is mounted nowhere, on a directory
/// to which nothing else does.
fn can_cover(f: &Files, device: u16, dir: u16) -> bool
    requires referenced { 0 < slice_index f.now.tree.nodes.references dir }
    ensures can { (u : UArea) (row : Row) (image : Image) → result ≡ can_cover (handed f.now u row image) device dir }
    ensures other { result ≡ true → device ≢ 0 }
{
    if device == 0 {
        return false;
    }
    let is_free = f.tree.mounts.covered().is_none();
    let is_alone = f.tree.nodes.refs(dir) == 1;
    let is_directory = is_directory_at(&f.tree.nodes, dir);
    is_free && is_alone && is_directory
}

/// Covers a directory by a disk, and keeps the reference to it. Else the reference goes.
///
/// # Errors
///
/// `EBUSY`: the disk cannot be mounted there.
fn cover(f: &mut Files, device: u16, dir: u16, now: u32) -> Result<(), Errno>
    requires referenced { 0 < slice_index f.old.tree.nodes.references dir }
    requires there { device ≢ 0 → has_second f.old.tree.mounts ≡ true }
    ensures did { (u : UArea) (row : Row) (image : Image) → unnamed (covers device (handed f.old u row image) dir)
        ≡ did_of (handed f.new u row image) result }
    ensures more { (i : ℕ) → slice_index f.old.tree.nodes.references i
        ≤ slice_index f.new.tree.nodes.references i + one_to dir i }
    ensures rest { SameRest f.old.tree.nodes f.new.tree.nodes }
{
    if !can_cover(f, device, dir) {
        let_go(&mut f.tree.nodes, dir, now);
        return Err(Errno::EBUSY);
    }
    let _ = f.tree.mounts.cover(dir);
    Ok(())
}

/// Mounts a disk on the directory of a name.
fn mount_disk<S: Space>(
    f: &mut Files,
    u: &UArea,
    space: &S,
    device: u16,
    name: u16,
    now: u32,
) -> Result<(), Errno>
    requires directory { 0 < slice_index f.old.tree.nodes.references u.now.dir }
    requires few { (i : ℕ) → slice_index f.old.tree.nodes.references i ≤ 65530 }
    requires mounts { AreMounts f.old.tree.mounts f.old.tree.nodes.store }
    requires there { device ≢ 0 → has_second f.old.tree.mounts ≡ true }
    ensures did { (row : Row) → unnamed (mounts_disk name (handed f.old u.now row (S.image space.now)) device)
        ≡ did_of (handed f.new u.now row (S.image space.now)) result }
    ensures more { (i : ℕ) → slice_index f.old.tree.nodes.references i ≤ slice_index f.new.tree.nodes.references i }
    ensures rest { SameRest f.old.tree.nodes f.new.tree.nodes }
{
    let dir = find_name(&mut f.tree, u, space, name)?;
    cover(f, device, dir, now)
}

/// Mounts the disk of a special file that was found on the directory of a name.
fn mount_found<S: Space>(
    f: &mut Files,
    u: &UArea,
    space: &S,
    special: u16,
    name: u16,
    now: u32,
) -> Result<(), Errno>
    requires referenced { 0 < slice_index f.old.tree.nodes.references special }
    requires directory { 0 < slice_index f.old.tree.nodes.references u.now.dir }
    requires few { (i : ℕ) → slice_index f.old.tree.nodes.references i ≤ 65530 }
    requires mounts { AreMounts f.old.tree.mounts f.old.tree.nodes.store }
    ensures did { (row : Row) → unnamed (mounts_found name (handed f.old u.now row (S.image space.now)) special)
        ≡ did_of (handed f.new u.now row (S.image space.now)) result }
    ensures more { (i : ℕ) → slice_index f.old.tree.nodes.references i ≤ slice_index f.new.tree.nodes.references i }
    ensures form { IsFileSystem f.old.tree.nodes }
    ensures rest { SameRest f.old.tree.nodes f.new.tree.nodes }
{
    f.tree.nodes.see();
    let device = disk_named(f, special)?;
    mount_disk(f, u, space, device, name, now)
}

/// Mounts the disk of a special file on a directory.
fn mount<S: Space>(
    f: &mut Files,
    u: &UArea,
    space: &S,
    special: u16,
    name: u16,
    now: u32,
) -> Result<(), Errno>
    requires sound { (row : Row) → IsSound (handed f.old u.now row (S.image space.now)) }
    ensures did { (row : Row) → unnamed (mount_on (handed f.old u.now row (S.image space.now)) special name)
        ≡ did_of (handed f.new u.now row (S.image space.now)) result }
    ensures kept { (row : Row)
        → IsKept (handed f.old u.now row (S.image space.now)) (handed f.new u.now row (S.image space.now)) }
    ensures rest { SameRest f.old.tree.nodes f.new.tree.nodes }
{
    let node = find_name(&mut f.tree, u, space, special)?;
    let result = mount_found(f, u, space, node, name, now);
    let_go(&mut f.tree.nodes, node, now);
    result
}

/// 21, mount(II): mounts the disk of a special file, `args[0]`, on a directory, `args[1]`, whose entries are then those of the
/// disk's root. That the third word asks for a disk that isn't written is not looked at, nor who the user is. R0 stays.
///
/// # Errors
///
/// Those of the first name. `ENOTBLK`: it is no block device. `ENXIO`: there is no disk of its number. Then those of the second
/// name. `EBUSY`: it is the root's disk, or the second disk is mounted already; the directory is referred to by something else,
/// or it is none.
pub fn mount_on<S: Space, T: Trace>(
    f: &mut Files,
    _slot: Slot,
    u: &mut UArea,
    row: &mut Row,
    space: &mut S,
    args: [u16; 4],
    now: u32,
    trace: &mut T,
) -> Answer
    requires sound { IsSound (handed f.old u.old row.old (S.image space.old)) }
    ensures does { Does (handed f.old u.old row.old (S.image space.old))
        (handed f.new u.new row.new (S.image space.new)) result (T.taken trace.old) (T.taken trace.new)
        (mount_on (handed f.old u.old row.old (S.image space.old)) (slice_index args 0) (slice_index args 1)) }
    ensures frame { T.leads_to trace.old trace.new }
    ensures memory { S.rest space.new ≡ S.rest space.old }
    ensures blocks { SameRest f.old.tree.nodes f.new.tree.nodes }
{
    let result = mount(f, u, space, args[0], args[1], now);
    answer_of(u, result)
}

/// Whether a disk is the second one, which is mounted nowhere.
fn is_unmounted(f: &Files, device: u16) -> bool
    ensures { result ≡ ((device == 1) && is_none f.now.tree.mounts.covered) }
{
    let is_free = f.tree.mounts.covered().is_none();
    device == SECOND_DISK && is_free
}

/// Whether a disk is the root's, or an inode of the second one is in use.
fn is_in_use(f: &Files, device: u16) -> bool
    ensures { (u : UArea) (row : Row) (image : Image) → result ≡ ((device == 0) || is_held (handed f.now u row image)) }
{
    let is_held = f.tree.nodes.holds(1);
    device == 0 || is_held
}

/// Unmounts a disk, which nobody uses.
///
/// # Errors
///
/// `EINVAL`: it is the second one, and is mounted nowhere. `EBUSY`: it is the root's, or something refers to an inode of it.
fn unmount_disk(f: &mut Files, device: u16, now: u32) -> Result<(), Errno>
    requires { (dir : ℕ) → f.old.tree.mounts.covered ≡ Some dir → 0 < slice_index f.old.tree.nodes.references dir }
    ensures did { (u : UArea) (row : Row) (image : Image) → unnamed (unmounts (handed f.old u row image) device)
        ≡ did_of (handed f.new u row image) result }
    ensures rest { SameRest f.old.tree.nodes f.new.tree.nodes }
{
    if is_unmounted(f, device) {
        return Err(Errno::EINVAL);
    }
    if is_in_use(f, device) {
        return Err(Errno::EBUSY);
    }
    match f.tree.mounts.uncover() {
        Ok(dir) => {
            let_go(&mut f.tree.nodes, dir, now);
            Ok(())
        }
        Err(_) => Err(Errno::EINVAL),
    }
}

/// Tells the disk of a special file, and gives the reference of the call to the file back.
///
/// # Errors
///
/// Those of `disk_named`.
fn leave_special(f: &mut Files, special: u16, now: u32) -> Result<u16, Errno>
    requires referenced { 0 < slice_index f.old.tree.nodes.references special }
    ensures disk { (u : UArea) (row : Row) (image : Image) → result ≡ disk_named (handed f.old u row image) special }
    ensures state { (u : UArea) (row : Row) (image : Image)
        → handed f.new u row image ≡ let_go (handed f.old u row image) special }
    ensures rest { SameRest f.old.tree.nodes f.new.tree.nodes }
{
    let named = disk_named(f, special);
    let_go(&mut f.tree.nodes, special, now);
    named
}

/// Unmounts the disk of a special file.
fn unmount<S: Space>(
    f: &mut Files,
    u: &UArea,
    space: &S,
    special: u16,
    now: u32,
) -> Result<(), Errno>
    requires sound { (row : Row) → IsSound (handed f.old u.now row (S.image space.now)) }
    ensures did { (row : Row) → unnamed (umount_off (handed f.old u.now row (S.image space.now)) special)
        ≡ did_of (handed f.new u.now row (S.image space.now)) result }
    ensures kept { (row : Row)
        → IsKept (handed f.old u.now row (S.image space.now)) (handed f.new u.now row (S.image space.now)) }
    ensures rest { SameRest f.old.tree.nodes f.new.tree.nodes }
{
    let node = find_name(&mut f.tree, u, space, special)?;
    let device = leave_special(f, node, now)?;
    unmount_disk(f, device, now)
}

/// 22, umount(II): unmounts the disk of a special file, `args[0]`: where the call isn't refused nothing is covered from then
/// on. R0 stays.
///
/// # Errors
///
/// Those of a name. `ENOTBLK`: it is no block device. `ENXIO`: there is no disk of its number. `EINVAL`: it is the second disk,
/// which is mounted nowhere. `EBUSY`: it is the root's disk, or an inode of the second one is in use.
pub fn umount_off<S: Space, T: Trace>(
    f: &mut Files,
    _slot: Slot,
    u: &mut UArea,
    row: &mut Row,
    space: &mut S,
    args: [u16; 4],
    now: u32,
    trace: &mut T,
) -> Answer
    requires sound { IsSound (handed f.old u.old row.old (S.image space.old)) }
    ensures does { Does (handed f.old u.old row.old (S.image space.old))
        (handed f.new u.new row.new (S.image space.new)) result (T.taken trace.old) (T.taken trace.new)
        (umount_off (handed f.old u.old row.old (S.image space.old)) (slice_index args 0)) }
    ensures uncovered { (r0 r1 : ℕ) → result ≡ Answer.Ret r0 r1 → f.new.tree.mounts.covered ≡ None }
    ensures frame { T.leads_to trace.old trace.new }
    ensures memory { S.rest space.new ≡ S.rest space.old }
    ensures blocks { SameRest f.old.tree.nodes f.new.tree.nodes }
{
    let result = unmount(f, u, space, args[0], now);
    answer_of(u, result)
}
