//! Disks that are opened on an image, and what they hold then.
ghost use Rattle.std.specs.Prelude.{◌≡◌, ◌<◌, ◌≤◌, ◌+◌, ℕ, [], true, false, None, IsSome, IfOk, IfSome, slice_index};
ghost use Rattle.fs_codec.specs.Disk.{disk_of, inode};
ghost use Rattle.fs_codec.specs.Faults.{disk_fault, image_fault, fault_within};
ghost use Rattle.fs_codec.specs.Fields.{Inode, fields_of};
ghost use Rattle.fs_codec.specs.Held.{addresses};
ghost use Rattle.fs_codec.specs.Modes.{holds_blocks, is_device};
ghost use Rattle.fs_codec.specs.declared.layout.TheConstants.{DISK_BLOCKS};
ghost use Rattle.fs_laws.specs.Chain.{free};
ghost use Rattle.fs_laws.specs.Whole.{IsApart};
ghost use Rattle.fs_blocks.specs.State.{disk};
ghost use Rattle.fs_blocks.specs.Store.{store_now};
ghost use Rattle.fs_tree.specs.Mounting.{AreMounts};

use crate::file_system::fixtures::{TWENTY_BLOCKS, Word};
use buf_cache::{Cache, Disk};
use fs_blocks::Volume;
use fs_check::{accept, accept_second};
use fs_codec::{DiskNode, inode_in};
use fs_nodes::Nodes;
use fs_tree::Tree;
use mount_tab::Mounts;
use std::alloc::{AllocError, Global};
use v6_base::Errno;

/// The volume on an image without a fault, and the blocks of the file of its inode 2.
fn volume_on(alloc: Global, image: &[u8]) -> Result<Volume, AllocError>
    requires { image_fault image.now ≡ None }
    ensures none { IfOk result (λ volume. disk_fault DISK_BLOCKS (disk volume.state) ≡ None) }
    ensures apart { IfOk result (λ volume. (node : Inode) → node ≡ inode (disk_of image.now) 2
        → holds_blocks node.mode ≡ true → IsApart (disk volume.state) (addresses (disk volume.state) node)) }
{
    let cache = Cache::new(alloc, Disk::from_bytes(alloc, image)?)?;
    let volume = Volume::open_on(cache);
    let _head = volume.head();
    Ok(volume)
}

/// The volume on an image, where that has no fault.
pub fn open_volume(alloc: Global, image: &[u8]) -> Result<Option<Volume>, AllocError>
    ensures { IfOk result (λ opened. IfSome opened (λ volume. disk_fault DISK_BLOCKS (disk volume.state) ≡ None)) }
{
    match accept(image) {
        Ok(()) => Ok(Some(volume_on(alloc, image)?)),
        Err(_) => Ok(None),
    }
}

/// A volume with an inode of it.
#[derive(Drop)]
pub struct OpenFile {
    pub volume: Volume,
    pub node: DiskNode,
}

/// The volume on an image, where that has no fault, with its inode 2, where that is used.
pub fn open_file(alloc: Global, image: &[u8]) -> Result<Option<OpenFile>, AllocError>
    ensures { IfOk result (λ opened. IfSome opened (λ file. is_device file.node.mode ≡ false
        → IsApart (disk file.volume.state) (addresses (disk file.volume.state) (fields_of file.node)))) }
{
    let node = inode_in(image, 2);
    match accept(image) {
        Ok(()) if node.mode != 0 => {
            let volume = volume_on(alloc, image)?;
            Ok(Some(OpenFile { volume, node }))
        }
        _ => Ok(None),
    }
}

/// A file system to which nobody refers.
fn fresh(volume: Volume) -> Nodes
    requires sound { disk_fault DISK_BLOCKS (disk volume.state) ≡ None }
    ensures quiet { (i : ℕ) → slice_index result.references i ≡ 0 }
    ensures one { result.store.second ≡ None }
{
    Nodes::new(volume)
}

/// The file system on an image, where that has no fault. Nobody refers to its inodes.
pub fn open(alloc: Global, image: &[u8]) -> Result<Option<Nodes>, AllocError>
    ensures quiet { IfOk result (λ opened. IfSome opened (λ nodes. (i : ℕ) → slice_index nodes.references i ≡ 0)) }
    ensures one { IfOk result (λ opened. IfSome opened (λ nodes. nodes.store.second ≡ None)) }
{
    match open_volume(alloc, image)? {
        Some(volume) => Ok(Some(fresh(volume))),
        None => Ok(None),
    }
}

/// The volume on the image of a second disk without a fault.
fn second_on(alloc: Global, image: &[u8]) -> Result<Volume, AllocError>
    requires { fault_within DISK_BLOCKS image.now ≡ None }
    ensures { IfOk result (λ volume. disk_fault DISK_BLOCKS (disk volume.state) ≡ None) }
{
    let cache = Cache::new(alloc, Disk::from_bytes(alloc, image)?)?;
    let volume = Volume::open_on(cache);
    Ok(volume)
}

/// How many inodes the disk of a volume has.
fn inode_count(volume: &Volume) -> u32
    ensures count { result ≡ (store_now volume.now.state).count }
    ensures few { result ≤ 77920 }
{
    16 * u32::from(volume.head().i_size)
}

/// The tree on two volumes, where their inodes' keys are words. Nobody refers to an inode, and nothing is covered.
fn tree_on_both(v: Volume, w: Volume) -> Option<Tree>
    requires root { disk_fault DISK_BLOCKS (disk v.state) ≡ None }
    requires second { disk_fault DISK_BLOCKS (disk w.state) ≡ None }
    ensures quiet { IfSome result (λ tree. (i : ℕ) → slice_index tree.nodes.references i ≡ 0) }
    ensures mounts { IfSome result (λ tree. AreMounts tree.mounts tree.nodes.store) }
    ensures there { IfSome result (λ tree. IsSome tree.nodes.store.second) }
{
    let first = inode_count(&v);
    let second = inode_count(&w);
    if first + second > 65_535 {
        return None;
    }
    let mounts = Mounts::new(first as u16, second as u16);
    let nodes = Nodes::new2(v, w);
    let tree = Tree::new2(nodes, mounts);
    Some(tree)
}

/// The tree on the images of two disks without a fault.
fn both_on(alloc: Global, image: &[u8], second: &[u8]) -> Result<Option<Tree>, AllocError>
    requires root { image_fault image.now ≡ None }
    requires second { fault_within DISK_BLOCKS second.now ≡ None }
    ensures quiet { IfOk result (λ opened. IfSome opened (λ tree. (i : ℕ) → slice_index tree.nodes.references i ≡ 0)) }
    ensures mounts { IfOk result (λ opened. IfSome opened (λ tree. AreMounts tree.mounts tree.nodes.store)) }
    ensures there { IfOk result (λ opened. IfSome opened (λ tree. IsSome tree.nodes.store.second)) }
{
    let v = volume_on(alloc, image)?;
    let w = second_on(alloc, second)?;
    Ok(tree_on_both(v, w))
}

/// The same where the second image has no fault.
fn open_second(alloc: Global, image: &[u8], second: &[u8]) -> Result<Option<Tree>, AllocError>
    requires { image_fault image.now ≡ None }
    ensures quiet { IfOk result (λ opened. IfSome opened (λ tree. (i : ℕ) → slice_index tree.nodes.references i ≡ 0)) }
    ensures mounts { IfOk result (λ opened. IfSome opened (λ tree. AreMounts tree.mounts tree.nodes.store)) }
    ensures there { IfOk result (λ opened. IfSome opened (λ tree. IsSome tree.nodes.store.second)) }
{
    match accept_second(second) {
        Ok(()) => both_on(alloc, image, second),
        Err(_) => Ok(None),
    }
}

/// The tree on the images of two disks, where they have no fault.
pub fn open_both(alloc: Global, image: &[u8], second: &[u8]) -> Result<Option<Tree>, AllocError>
    ensures quiet { IfOk result (λ opened. IfSome opened (λ tree. (i : ℕ) → slice_index tree.nodes.references i ≡ 0)) }
    ensures mounts { IfOk result (λ opened. IfSome opened (λ tree. AreMounts tree.mounts tree.nodes.store)) }
    ensures there { IfOk result (λ opened. IfSome opened (λ tree. IsSome tree.nodes.store.second)) }
{
    match accept(image) {
        Ok(()) => open_second(alloc, image, second),
        Err(_) => Ok(None),
    }
}

/// Refers to an inode, where it is used. No inode is then referred to more than once more.
pub fn takes(nodes: &mut Nodes, ino: u16) -> bool
    ensures few { (n : ℕ) → ((i : ℕ) → slice_index nodes.old.references i ≤ n)
        → (i : ℕ) → slice_index nodes.new.references i ≤ n + 1 }
    ensures low { ((i : ℕ) → slice_index nodes.old.references i ≤ 65530)
        → (i : ℕ) → slice_index nodes.new.references i ≤ 65530 }
    ensures referenced { result ≡ true → 0 < slice_index nodes.new.references ino }
    ensures store { nodes.new.store ≡ nodes.old.store }
{
    if nodes.peek(ino).is_none() || nodes.refs(ino) > 9 {
        return false;
    }
    let _ = nodes.take(ino);
    nodes.refs(ino) > 0
}

/// Whether there is no free block.
pub fn is_spent(volume: &mut Volume) -> bool
    ensures { result ≡ true → free (disk volume.new.state) ≡ [] }
{
    match volume.alloc_block() {
        Err(Errno::ENOSPC) => true,
        _ => false,
    }
}

/// Whether these are the blocks that are free, in the order in which they are taken.
pub fn are_free(volume: &mut Volume, blocks: &[u16]) -> bool {
    for block in blocks {
        if volume.alloc_block() != Ok(*block) {
            return false;
        }
    }
    is_spent(volume)
}

/// Whether these bytes stand at a place of the first twenty blocks of the disk.
pub fn stands(nodes: &Nodes, at: usize, bytes: &[u8]) -> bool {
    for (k, byte) in bytes.iter().enumerate() {
        let place = at.wrapping_add(k);
        if place >= TWENTY_BLOCKS || nodes.on_disk(0, (place / 512) as u16)[place % 512] != *byte {
            return false;
        }
    }
    true
}

/// Whether each word stands at its place of the first twenty blocks of the disk.
pub fn disk_has(nodes: &Nodes, words: &[Word]) -> bool {
    for (at, word) in words {
        if !stands(nodes, *at, word.to_le_bytes().as_slice()) {
            return false;
        }
    }
    true
}

/// The first blocks of a disk, as they are on it.
pub fn written(alloc: Global, nodes: &Nodes, blocks: u16) -> Result<Vec<u8>, AllocError>
    requires { blocks ≤ DISK_BLOCKS }
{
    let mut image = Vec::new(alloc);
    for n in 0..blocks {
        image.extend_from_slice(nodes.on_disk(0, n))?;
    }
    Ok(image)
}
