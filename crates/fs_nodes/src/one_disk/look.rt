//! A look at a file's bytes, which takes no block and sets no time.
ghost use Rattle.std.specs.Prelude.{◌≡◌, ◌≢◌, ◌+◌, ◌*◌, ◌<◌, ℕ, true, Some, IsSome, replicate, slice_index};
ghost use Rattle.buf_cache.specs.Blocks.{block_at, WritesLate};
ghost use Rattle.fs_codec.specs.declared.layout.TheConstants.{DISK_BLOCKS};
ghost use Rattle.fs_codec.specs.Fields.{fields_of};
ghost use Rattle.fs_codec.specs.Modes.{holds_blocks};
ghost use Rattle.fs_codec.specs.Held.{addresses};
ghost use Rattle.fs_codec.specs.Store.{Node, node_numbered};
ghost use Rattle.fs_codec.specs.Stands.{data_of, body_of};
ghost use Rattle.fs_laws.specs.Whole.{IsApart};
ghost use Rattle.fs_blocks.specs.State.{disk};
ghost use Rattle.fs_nodes.specs.one_disk.FileSystem.{file_byte, near_byte, SameFiles};

use crate::one_disk::inodes::{see, see_addresses};
use crate::one_disk::nodes::DiskNodes;
use crate::one_disk::table::peek_inode;
use fs_blocks::Volume;
use fs_codec::{DiskNode, holds_blocks};

/// Copies a block, or zeros for the number 0.
fn copy_block(volume: &mut Volume, b: u16, into: &mut [u8; 512])
    requires { b < DISK_BLOCKS }
    ensures none { b ≡ 0 → into.new ≡ replicate 512 0 }
    ensures some { b ≢ 0 → into.new ≡ block_at volume.old.state.blocks b }
    ensures same { volume.new.state ≡ volume.old.state }
    ensures stored { WritesLate volume.old.stored volume.old.state.blocks volume.new.stored }
{
    if b == 0 {
        *into = [0; 512];
        return;
    }
    *into = *volume.block(b);
}

/// Copies data block `n` of a file, or zeros where the file does not have the block.
fn copy_data(volume: &mut Volume, node: &DiskNode, n: u16, into: &mut [u8; 512])
    requires { holds_blocks node.now.mode ≡ true
        → IsApart (disk volume.old.state) (addresses (disk volume.old.state) (fields_of node.now)) }
    ensures bytes { into.new ≡ data_of (disk volume.old.state) (fields_of node.now) n }
    ensures same { volume.new.state ≡ volume.old.state }
    ensures stored { WritesLate volume.old.stored volume.old.state.blocks volume.new.stored }
{
    if !holds_blocks(node.mode) {
        *into = [0; 512];
        return;
    }
    see(volume);
    see_addresses(&node.addr);
    let b = volume.address_of(node, n);
    copy_block(volume, b, into);
}

/// The byte at a place of a file of this size, which lies in the block of an offset or in the block behind it.
fn byte_of(first: &[u8; 512], second: &[u8; 512], offset: u32, size: u32, at: u32) -> u8
    ensures { result ≡ near_byte first.now second.now offset size at }
{
    if at >= size {
        return 0;
    }
    let place = (at % 512) as usize;
    if at / 512 == offset / 512 {
        first[place]
    } else {
        second[place]
    }
}

/// Takes 16 bytes of two blocks, up to the size.
fn fill(first: &[u8; 512], second: &[u8; 512], offset: u32, size: u32, buf: &mut [u8; 16])
    requires { offset < 16777216 }
    ensures { (k : ℕ) → k < 16
        → slice_index buf.new k ≡ near_byte first.now second.now offset size (offset + k) }
{
    for k in 0..16 {
        buf[k] = byte_of(first, second, offset, size, offset + k as u32);
    }
}

/// The 16 bytes of a file from an offset on, with zeros for what it does not have and behind its size.
fn look_at(volume: &mut Volume, node: &DiskNode, offset: u32, buf: &mut [u8; 16])
    requires { holds_blocks node.now.mode ≡ true
        → IsApart (disk volume.old.state) (addresses (disk volume.old.state) (fields_of node.now)) }
    ensures bytes { (k : ℕ) → k < 16 → slice_index buf.new k
        ≡ file_byte node.now.size (body_of (disk volume.old.state) (fields_of node.now)) (offset + k) }
    ensures same { volume.new.state ≡ volume.old.state }
    ensures stored { WritesLate volume.old.stored volume.old.state.blocks volume.new.stored }
{
    if offset >= node.size {
        *buf = [0; 16];
        return;
    }
    see(volume);
    see_addresses(&node.addr);
    let n = (offset / 512) as u16;
    let last = ((offset + 15) / 512) as u16;
    let mut first = [0; 512];
    copy_data(volume, node, n, &mut first);
    let mut second = first;
    if last != n {
        copy_data(volume, node, last, &mut second);
    }
    fill(&first, &second, offset, node.size, buf);
}

impl DiskNodes {
    /// The 16 bytes of a file from an offset on, with zeros for blocks that it does not have and behind its size. A directory
    /// entry is so long. Nothing need refer to the inode.
    pub fn look(&mut self, ino: u16, offset: u32, buf: &mut [u8; 16])
        requires node { IsSome (node_numbered self.old.store ino) }
        ensures bytes { (node : Node) → node_numbered self.old.store ino ≡ Some node
            → (k : ℕ) → k < 16 → slice_index buf.new k ≡ file_byte node.size node.body (offset + k) }
        ensures same { SameFiles self.old self.new }
        ensures stored { WritesLate self.old.stored self.old.blocks self.new.stored }
    {
        let node = peek_inode(&mut self.volume, &self.table, ino);
        look_at(&mut self.volume, &node, offset, buf);
    }

    /// Copies block `n` of a file, with zeros for a block that it does not have. Bytes of the last block that lie behind the
    /// file's size are copied too. Nothing need refer to the inode.
    pub fn look_block(&mut self, ino: u16, n: u16, buf: &mut [u8; 512])
        requires node { IsSome (node_numbered self.old.store ino) }
        ensures bytes { (node : Node) → node_numbered self.old.store ino ≡ Some node
            → (k : ℕ) → k < 512 → slice_index buf.new k ≡ slice_index node.body (512 * n + k) }
        ensures same { SameFiles self.old self.new }
        ensures stored { WritesLate self.old.stored self.old.blocks self.new.stored }
    {
        let node = peek_inode(&mut self.volume, &self.table, ino);
        see_addresses(&node.addr);
        copy_data(&mut self.volume, &node, n, buf);
    }
}
