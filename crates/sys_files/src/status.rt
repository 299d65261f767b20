//! What is told of a file: stat(II), fstat(II); Lions' Commentary, `stat1` in `sys3.c`.
ghost use Rattle.std.specs.Prelude.{◌≡◌, ◌<◌, ℕ, [], ◌∷◌, true, false, Some, None, if◌then◌else◌, slice_index};
ghost use Rattle.v6_base.specs.Copy.{store_bytes};
ghost use Rattle.fs_codec.specs.Bytes.{bytes_of, inode_bytes};
ghost use Rattle.fs_codec.specs.Fields.{fields_of};
ghost use Rattle.fs_codec.specs.Modes.{is_device};
ghost use Rattle.fs_codec.specs.Store.{Node};
ghost use Rattle.fs_nodes.specs.FileSystem.{SameRest, Shows};
ghost use Rattle.mount_tab.specs.Mounted.{split_of};
ghost use Rattle.proc_tab.specs.declared.row.Row.{Row};
ghost use Rattle.sys_files.specs.Handed.{handed, node_in};
ghost use Rattle.sys_files.specs.Status.{status_bytes, tells_status, stat_file, stat_open};
ghost use Rattle.sys_files.specs.Sound.{IsSound};
ghost use Rattle.sys_files.specs.Does.{Does};

use crate::answers::done;
use crate::descriptors::{file_of, open_entry};
use crate::files::Files;
use crate::inodes::inode_of;
use crate::naming::find_name;
use fs_codec::{DiskNode, is_device, put_words, write_node};
use fs_tree::{Tree, let_go};
use proc_tab::Row;
use u_area::UArea;
use v6_base::{Answer, Errno, Slot, Space, Trace};

/// The first address that is told: the number of a device.
fn first_address(node: &DiskNode) -> u16
    ensures { result ≡ (if is_device node.now.mode then slice_index node.now.addr 0 else 0) }
{
    if is_device(node.mode) {
        node.addr[0]
    } else {
        0
    }
}

/// An inode with no addresses but the number of a device.
fn without_addresses(node: &DiskNode) -> DiskNode
    ensures { fields_of result ≡ record (fields_of node.now) {
      addr = (if is_device node.now.mode then slice_index node.now.addr 0 else 0) ∷ 0 ∷ 0 ∷ 0 ∷ 0 ∷ 0 ∷ 0 ∷ 0 ∷ [];
    } }
{
    let mut told = *node;
    told.addr = [first_address(node), 0, 0, 0, 0, 0, 0, 0];
    told
}

/// Sees that bytes are below 256.
pub(crate) fn see_bytes(bytes: &[u8])
    ensures { (k : ℕ) → slice_index bytes.now k < 256 }
{
    let _ = bytes;
}

/// An inode as on a disk.
fn node_bytes(node: &DiskNode) -> [u8; 32]
    ensures { result ≡ inode_bytes (fields_of node.now) }
{
    let mut bytes = [0; 32];
    write_node(node, &mut bytes);
    see_bytes(&bytes);
    bytes
}

/// The numbers of a file's disk and of its inode there.
fn number_bytes(dev: u8, ino: u16) -> [u8; 4]
    ensures { result ≡ bytes_of (dev ∷ ino ∷ []) }
{
    let mut bytes = [0; 4];
    put_words(&mut bytes, 0, &[u16::from(dev), ino]);
    see_bytes(&bytes);
    bytes
}

/// The 36 bytes that are told of a file.
fn status_bytes(dev: u8, ino: u16, node: &DiskNode) -> [u8; 36]
    ensures { (file : Node) → Shows node.now file → result ≡ status_bytes dev ino file }
{
    let mut bytes = [0; 36];
    bytes[..4].copy_from_slice(&number_bytes(dev, ino));
    bytes[4..].copy_from_slice(&node_bytes(&without_addresses(node)));
    bytes
}

/// Puts the 36 bytes of a file whose inode is referred to into a process's memory, all of them or none.
fn put_status<S: Space>(tree: &Tree, space: &mut S, ino: u16, at: u16) -> bool
    requires referenced { 0 < slice_index tree.now.nodes.references ino }
    ensures done { result ≡ true → store_bytes (S.image space.old) at
        (status_bytes (split_of tree.now.mounts ino).0 (split_of tree.now.mounts ino).1 (node_in tree.now.nodes.store ino))
        ≡ Some (S.image space.new) }
    ensures refused { result ≡ false → store_bytes (S.image space.old) at
        (status_bytes (split_of tree.now.mounts ino).0 (split_of tree.now.mounts ino).1 (node_in tree.now.nodes.store ino))
        ≡ None }
    ensures same { result ≡ false → S.image space.new ≡ S.image space.old }
    ensures rest { S.rest space.new ≡ S.rest space.old }
{
    let node = inode_of(&tree.nodes, ino);
    let (dev, number) = tree.mounts.split(ino);
    space.copy_out(at, &status_bytes(dev, number, &node))
}

/// Tells of a file whose inode is referred to.
///
/// # Errors
///
/// `EFAULT`: the 36 bytes cannot be put to the address. None of them is then.
fn tell_status<S: Space>(f: &Files, u: &UArea, space: &mut S, ino: u16, at: u16) -> Answer
    requires referenced { 0 < slice_index f.now.tree.nodes.references ino }
    ensures answer { (row : Row) → result ≡ (tells_status (handed f.now u.now row (S.image space.old)) ino at).answer }
    ensures state { (row : Row) → handed f.now u.now row (S.image space.new)
        ≡ (tells_status (handed f.now u.now row (S.image space.old)) ino at).state }
    ensures items { (row : Row) → (tells_status (handed f.now u.now row (S.image space.old)) ino at).items ≡ [] }
    ensures memory { S.rest space.new ≡ S.rest space.old }
{
    if put_status(&f.tree, space, ino, at) {
        done(u)
    } else {
        Answer::Fail(Errno::EFAULT)
    }
}

/// 18, stat(II): puts the 36 bytes of the file of a name, `args[0]`, to an address, `args[1]`. R0 stays.
///
/// # Errors
///
/// Those of a name. `EFAULT`: the bytes cannot be put to the address. None of them is then.
#[tactic(auto, using(v6_base::proofs::Took::takes))]
pub fn stat_file<S: Space, T: Trace>(
    f: &mut Files,
    _slot: Slot,
    u: &mut UArea,
    row: &mut Row,
    space: &mut S,
    args: [u16; 4],
    now: u32,
    trace: &mut T,
) -> Answer
    requires sound { IsSound (handed f.old u.old row.old (S.image space.old)) }
    ensures does { Does (handed f.old u.old row.old (S.image space.old))
        (handed f.new u.new row.new (S.image space.new)) result (T.taken trace.old) (T.taken trace.new)
        (stat_file (handed f.old u.old row.old (S.image space.old)) (slice_index args 0) (slice_index args 1)) }
    ensures frame { T.leads_to trace.old trace.new }
    ensures memory { S.rest space.new ≡ S.rest space.old }
    ensures blocks { SameRest f.old.tree.nodes f.new.tree.nodes }
{
    let ino = match find_name(&mut f.tree, u, space, args[0]) {
        Ok(ino) => ino,
        Err(e) => return Answer::Fail(e),
    };
    let answer = tell_status(f, u, space, ino, args[1]);
    let_go(&mut f.tree.nodes, ino, now);
    answer
}

/// 28, fstat(II): puts the 36 bytes of the open file of the number in R0 to an address, `args[0]`. R0 stays.
///
/// # Errors
///
/// `EBADF`: the number is not open. `EFAULT`: the bytes cannot be put to the address. None of them is then.
#[tactic(auto, using(v6_base::proofs::Took::takes))]
pub fn stat_open<S: Space, T: Trace>(
    f: &mut Files,
    _slot: Slot,
    u: &mut UArea,
    row: &mut Row,
    space: &mut S,
    args: [u16; 4],
    _now: u32,
    trace: &mut T,
) -> Answer
    requires sound { IsSound (handed f.old u.old row.old (S.image space.old)) }
    ensures does { Does (handed f.old u.old row.old (S.image space.old))
        (handed f.new u.new row.new (S.image space.new)) result (T.taken trace.old) (T.taken trace.new)
        (stat_open (handed f.old u.old row.old (S.image space.old)) (slice_index args 0)) }
    ensures frame { T.leads_to trace.old trace.new }
    ensures memory { S.rest space.new ≡ S.rest space.old }
    ensures blocks { SameRest f.old.tree.nodes f.new.tree.nodes }
{
    let entry = match open_entry(f, u, u.r[0]) {
        Ok(entry) => entry,
        Err(e) => return Answer::Fail(e),
    };
    let ino = file_of(f, entry).ino;
    tell_status(f, u, space, ino, args[0])
}
