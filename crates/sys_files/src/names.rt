//! A directory is entered, a file's permissions and its owner are changed: chdir(II), chmod(II), chown(II), sync(II).
//! Lions' Commentary, `sys4.c`.
ghost use Rattle.std.specs.Prelude.{◌≡◌, ◌/◌, ◌%◌, ◌<◌, ◌==◌, ◌||◌, if◌then◌else◌, [], slice_index};
ghost use Rattle.fs_nodes.specs.FileSystem.{SameRest, AllStand};
ghost use Rattle.fs_tree.specs.Finding.{inodes_of, with_reference, put_back};
ghost use Rattle.proc_tab.specs.declared.row.Row.{Row};
ghost use Rattle.v6_base.specs.Image.{Image};
ghost use Rattle.fs_nodes.specs.Keys.{with_fields};
ghost use Rattle.sys_files.specs.Handed.{handed, node_in};
ghost use Rattle.sys_files.specs.Names.{enters_directory, chdir_to, changed_mode, changes_mode, chmod_to};
ghost use Rattle.sys_files.specs.Names.{chown_to, sync_all};
ghost use Rattle.sys_files.specs.Sound.{IsSound};
ghost use Rattle.sys_files.specs.Does.{Does};

use crate::answers::done;
use crate::files::Files;
use crate::inodes::inode_of;
use crate::naming::{find_name, user_of};
use fs_codec::{DiskNode, IALLOC, IFMT, ILARG, is_directory};
use fs_nodes::Nodes;
use fs_tree::{Want, let_go, refer_again};
use proc_tab::Row;
use u_area::UArea;
use v6_base::{Answer, Errno, Slot, Space, Trace};

/// The bits of a mode that chmod(II) leaves: that the inode is used, the type of the file, and whether it is large.
const KEPT: u16 = IALLOC | IFMT | ILARG;

/// The bits that user 0 sets.
const SET_BY_SUPER_USER: u16 = 0o7777;

/// The bits that the owner sets: the sticky one is none of them.
const SET_BY_OWNER: u16 = 0o6777;

/// Whether the user is user 0.
fn is_super_user(u: &UArea) -> bool
    ensures { result ≡ (u.now.uid == 0) }
{
    u.uid == 0
}

/// The bits of a mode that a user sets.
fn set_bits(is_super_user: bool) -> u16
    ensures { result ≡ (if is_super_user then 0o7777 else 0o6777) }
{
    if is_super_user {
        SET_BY_SUPER_USER
    } else {
        SET_BY_OWNER
    }
}

/// A file's mode with the bits of another one that a user sets.
fn changed_mode(old: u16, mode: u16, is_super_user: bool) -> u16
    ensures { result ≡ changed_mode old mode is_super_user }
{
    (old & KEPT) | (mode & set_bits(is_super_user)) | IALLOC
}

/// Whether the user owns a file or is user 0.
fn is_owner(node: &DiskNode, u: &UArea) -> bool
    ensures { result ≡ ((node.now.uid == u.now.uid) || (u.now.uid == 0)) }
{
    node.uid == u.uid || is_super_user(u)
}

/// Gives a file the permissions of a mode.
fn set_permissions(nodes: &mut Nodes, u: &UArea, ino: u16, mode: u16, now: u32)
    requires referenced { 0 < slice_index nodes.old.references ino }
    ensures store { nodes.new.store ≡ with_fields nodes.old.store ino
        (record (node_in nodes.old.store ino) {
          mode = changed_mode (node_in nodes.old.store ino).mode mode (u.now.uid == 0);
          modtime = now;
        }) }
    ensures references { nodes.new.references ≡ nodes.old.references }
    ensures rest { SameRest nodes.old nodes.new }
{
    nodes.see();
    let old = inode_of(nodes, ino).mode;
    nodes.set_mode(ino, changed_mode(old, mode, is_super_user(u)), now);
}

/// Changes the permissions of a file that is referred to.
///
/// # Errors
///
/// `EPERM`: the user is neither its owner nor user 0.
fn change_mode(f: &mut Files, u: &UArea, ino: u16, mode: u16, now: u32) -> Answer
    requires referenced { 0 < slice_index f.old.tree.nodes.references ino }
    ensures answer { (row : Row) (image : Image) → result
        ≡ (changes_mode mode now (handed f.old u.now row image) ino).answer }
    ensures state { (row : Row) (image : Image) → handed f.new u.now row image
        ≡ (changes_mode mode now (handed f.old u.now row image) ino).state }
    ensures items { (row : Row) (image : Image)
        → (changes_mode mode now (handed f.old u.now row image) ino).items ≡ [] }
    ensures references { f.new.tree.nodes.references ≡ f.old.tree.nodes.references }
    ensures rest { SameRest f.old.tree.nodes f.new.tree.nodes }
{
    if !is_owner(&inode_of(&f.tree.nodes, ino), u) {
        return Answer::Fail(Errno::EPERM);
    }
    set_permissions(&mut f.tree.nodes, u, ino, mode, now);
    done(u)
}

/// Makes a directory that is referred to the current one: it is referred to once more, and then the old one once less.
fn change_directory(nodes: &mut Nodes, u: &mut UArea, ino: u16, now: u32)
    requires referenced { 0 < slice_index nodes.old.references ino }
    requires directory { 0 < slice_index nodes.old.references u.old.dir }
    requires few { slice_index nodes.old.references ino < 65535 }
    ensures inodes { inodes_of nodes.new ≡ put_back (with_reference (inodes_of nodes.old) ino) u.old.dir }
    ensures area { u.new ≡ record u.old { dir = ino } }
    ensures rest { SameRest nodes.old nodes.new }
{
    refer_again(nodes, ino);
    let_go(nodes, u.dir, now);
    u.dir = ino;
}

/// Enters a directory that is referred to.
///
/// # Errors
///
/// `ENOTDIR`: it is none. `EACCES`: the user may not search it.
fn enter_directory(f: &mut Files, u: &mut UArea, ino: u16, now: u32) -> Answer
    requires referenced { 0 < slice_index f.old.tree.nodes.references ino }
    requires directory { 0 < slice_index f.old.tree.nodes.references u.old.dir }
    requires few { slice_index f.old.tree.nodes.references ino < 65535 }
    ensures answer { (row : Row) (image : Image) → result
        ≡ (enters_directory (handed f.old u.old row image) ino).answer }
    ensures state { (row : Row) (image : Image) → handed f.new u.new row image
        ≡ (enters_directory (handed f.old u.old row image) ino).state }
    ensures items { (row : Row) (image : Image) → (enters_directory (handed f.old u.old row image) ino).items ≡ [] }
    ensures referred { 0 < slice_index f.new.tree.nodes.references ino }
    ensures rest { SameRest f.old.tree.nodes f.new.tree.nodes }
{
    if !is_directory(inode_of(&f.tree.nodes, ino).mode) {
        return Answer::Fail(Errno::ENOTDIR);
    }
    if let Err(e) = f.tree.access(ino, user_of(u), Want::Execute) {
        return Answer::Fail(e);
    }
    change_directory(&mut f.tree.nodes, u, ino, now);
    done(u)
}

/// 12, chdir(II): makes the directory of a name, `args[0]`, the current one. R0 stays.
///
/// # Errors
///
/// Those of a name. `ENOTDIR`: it is the name of no directory. `EACCES`: the user may not search the directory.
#[tactic(auto, using(v6_base::proofs::Took::takes))]
pub fn chdir_to<S: Space, T: Trace>(
    f: &mut Files,
    _slot: Slot,
    u: &mut UArea,
    row: &mut Row,
    space: &mut S,
    args: [u16; 4],
    now: u32,
    trace: &mut T,
) -> Answer
    requires sound { IsSound (handed f.old u.old row.old (S.image space.old)) }
    ensures does { Does (handed f.old u.old row.old (S.image space.old))
        (handed f.new u.new row.new (S.image space.new)) result (T.taken trace.old) (T.taken trace.new)
        (chdir_to (handed f.old u.old row.old (S.image space.old)) (slice_index args 0)) }
    ensures frame { T.leads_to trace.old trace.new }
    ensures memory { S.rest space.new ≡ S.rest space.old }
    ensures blocks { SameRest f.old.tree.nodes f.new.tree.nodes }
{
    let ino = match find_name(&mut f.tree, u, space, args[0]) {
        Ok(ino) => ino,
        Err(e) => return Answer::Fail(e),
    };
    let answer = enter_directory(f, u, ino, now);
    let_go(&mut f.tree.nodes, ino, now);
    answer
}

/// 15, chmod(II): gives the file of a name, `args[0]`, the permissions of a mode, `args[1]`. R0 stays.
///
/// # Errors
///
/// Those of a name. `EPERM`: the user is neither its owner nor user 0.
#[tactic(auto, using(v6_base::proofs::Took::takes))]
pub fn chmod_to<S: Space, T: Trace>(
    f: &mut Files,
    _slot: Slot,
    u: &mut UArea,
    row: &mut Row,
    space: &mut S,
    args: [u16; 4],
    now: u32,
    trace: &mut T,
) -> Answer
    requires sound { IsSound (handed f.old u.old row.old (S.image space.old)) }
    ensures does { Does (handed f.old u.old row.old (S.image space.old))
        (handed f.new u.new row.new (S.image space.new)) result (T.taken trace.old) (T.taken trace.new)
        (chmod_to (handed f.old u.old row.old (S.image space.old)) (slice_index args 0) (slice_index args 1) now) }
    ensures frame { T.leads_to trace.old trace.new }
    ensures memory { S.rest space.new ≡ S.rest space.old }
    ensures blocks { SameRest f.old.tree.nodes f.new.tree.nodes }
{
    let ino = match find_name(&mut f.tree, u, space, args[0]) {
        Ok(ino) => ino,
        Err(e) => return Answer::Fail(e),
    };
    let answer = change_mode(f, u, ino, args[1], now);
    let_go(&mut f.tree.nodes, ino, now);
    answer
}

/// Gives a file an owner, the low byte, and a group, the high one.
fn set_owner(nodes: &mut Nodes, ino: u16, owner: u16, now: u32)
    requires referenced { 0 < slice_index nodes.old.references ino }
    ensures store { nodes.new.store ≡ with_fields nodes.old.store ino
        (record (node_in nodes.old.store ino) { uid = owner % 256; gid = owner / 256; modtime = now }) }
    ensures references { nodes.new.references ≡ nodes.old.references }
    ensures rest { SameRest nodes.old nodes.new }
{
    nodes.see();
    nodes.set_owner(ino, (owner % 256) as u8, (owner / 256) as u8, now);
}

/// 16, chown(II): gives the file of a name, `args[0]`, an owner, the low byte of `args[1]`, and a group, the high one.
/// R0 stays.
///
/// # Errors
///
/// `EPERM`: the user is not user 0. Then those of a name.
#[tactic(auto, using(v6_base::proofs::Took::takes))]
pub fn chown_to<S: Space, T: Trace>(
    f: &mut Files,
    _slot: Slot,
    u: &mut UArea,
    row: &mut Row,
    space: &mut S,
    args: [u16; 4],
    now: u32,
    trace: &mut T,
) -> Answer
    requires sound { IsSound (handed f.old u.old row.old (S.image space.old)) }
    ensures does { Does (handed f.old u.old row.old (S.image space.old))
        (handed f.new u.new row.new (S.image space.new)) result (T.taken trace.old) (T.taken trace.new)
        (chown_to (handed f.old u.old row.old (S.image space.old)) (slice_index args 0) (slice_index args 1) now) }
    ensures frame { T.leads_to trace.old trace.new }
    ensures memory { S.rest space.new ≡ S.rest space.old }
    ensures blocks { SameRest f.old.tree.nodes f.new.tree.nodes }
{
    if !is_super_user(u) {
        return Answer::Fail(Errno::EPERM);
    }
    let ino = match find_name(&mut f.tree, u, space, args[0]) {
        Ok(ino) => ino,
        Err(e) => return Answer::Fail(e),
    };
    set_owner(&mut f.tree.nodes, ino, args[1], now);
    let_go(&mut f.tree.nodes, ino, now);
    done(u)
}

/// 36, sync(II): writes to the disks what has changed, and each super-block with the time where that has. The blocks of each
/// disk stand for its file system then. R0 stays.
#[tactic(auto, using(v6_base::proofs::Took::takes))]
pub fn sync_all<S: Space, T: Trace>(
    f: &mut Files,
    _slot: Slot,
    u: &mut UArea,
    row: &mut Row,
    space: &mut S,
    _args: [u16; 4],
    now: u32,
    trace: &mut T,
) -> Answer
    requires sound { IsSound (handed f.old u.old row.old (S.image space.old)) }
    ensures does { Does (handed f.old u.old row.old (S.image space.old))
        (handed f.new u.new row.new (S.image space.new)) result (T.taken trace.old) (T.taken trace.new)
        (sync_all (handed f.old u.old row.old (S.image space.old)) now) }
    ensures frame { T.leads_to trace.old trace.new }
    ensures memory { S.rest space.new ≡ S.rest space.old }
    ensures blocks { SameRest f.old.tree.nodes f.new.tree.nodes }
    ensures stored { f.new.tree.nodes.stored ≡ f.new.tree.nodes.blocks }
    ensures stands { AllStand f.new.tree.nodes.stored f.new.tree.nodes.store }
{
    f.tree.nodes.update_all(now);
    done(u)
}
