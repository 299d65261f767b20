//! The inodes in their blocks: file system(V).
ghost use Rattle.std.specs.Prelude.{◌≡◌, ◌≤◌, MatchOption, IfSome, None, false, length};
ghost use Rattle.fs_codec.specs.Fields.{fields_of};
ghost use Rattle.fs_codec.specs.Disk.{inode, inode as the_inode, inode_count};
ghost use Rattle.fs_codec.specs.Store.{node_numbered};
ghost use Rattle.buf_cache.specs.Blocks.{block_at, IsDisk, WritesLate};
ghost use Rattle.fs_laws.specs.Sync.{ReadsAlike};
ghost use Rattle.fs_blocks.specs.State.{disk, IsVolume, HasNoFlags, SameSizes};
ghost use Rattle.fs_nodes.specs.one_disk.FileSystem.{ShowsNode, store_now};
ghost use Rattle.fs_nodes.specs.one_disk.Inodes.{WritesInode};

use fs_blocks::Volume;
use fs_codec::{DiskNode, read_node, write_node};

/// Sees what always holds of a volume, and costs nothing.
pub(crate) fn see(volume: &Volume)
    ensures blocks { IsDisk volume.now.state.blocks }
    ensures sound { IsVolume volume.now.state.blocks volume.now.state.head }
    ensures flags { HasNoFlags volume.now.state.head }
    ensures sizes { SameSizes volume.now.state.blocks volume.now.state.head }
    ensures stored { volume.now.state.changed ≡ false
        → ReadsAlike (disk volume.now.state) (block_at volume.now.state.blocks) }
{
    let _head = volume.head();
}

/// Sees that there are eight addresses.
pub(crate) fn see_addresses(addr: &[u16; 8])
    ensures { length addr.now ≡ 8 }
{
    let _first = addr[0];
}

/// The inode of this number, as its block has it.
pub(crate) fn read_inode(volume: &mut Volume, ino: u16) -> DiskNode
    requires low { 1 ≤ ino }
    requires high { ino ≤ inode_count (disk volume.old.state) }
    ensures node { fields_of result ≡ inode (disk volume.old.state) ino }
    ensures same { volume.new.state ≡ volume.old.state }
    ensures stored { WritesLate volume.old.stored volume.old.state.blocks volume.new.stored }
{
    see(volume);
    let place = 32 * ((ino - 1) % 16) as usize;
    let block = volume.block((ino - 1) / 16 + 2);
    let mut bytes = [0; 32];
    bytes.copy_from_slice(&block[place..place + 32]);
    read_node(&bytes)
}

/// Writes the inode of this number into its block.
pub(crate) fn write_inode(volume: &mut Volume, ino: u16, node: &DiskNode)
    requires low { 1 ≤ ino }
    requires high { ino ≤ inode_count (disk volume.old.state) }
    ensures written { WritesInode volume.old.state ino (fields_of node.now) volume.new.state }
    ensures stored { WritesLate volume.old.stored volume.old.state.blocks volume.new.stored }
{
    see(volume);
    let place = 32 * ((ino - 1) % 16);
    let mut bytes = [0; 32];
    write_node(node, &mut bytes);
    volume.change((ino - 1) / 16 + 2, place, &bytes);
}

/// The inode of a number, as its block has it, where it is used there.
pub(crate) fn read_used(volume: &mut Volume, ino: u16) -> Option<DiskNode>
    ensures used { MatchOption result (node_numbered (store_now volume.old.state) ino ≡ None)
        (λ inode. ShowsNode (node_numbered (store_now volume.old.state) ino) inode) }
    ensures fields { IfSome result (λ inode. fields_of inode ≡ the_inode (disk volume.old.state) ino) }
    ensures same { volume.new.state ≡ volume.old.state }
    ensures stored { WritesLate volume.old.stored volume.old.state.blocks volume.new.stored }
{
    see(volume);
    if ino == 0 || u32::from(ino) > 16 * u32::from(volume.head().i_size) {
        return None;
    }
    let node = read_inode(volume, ino);
    if node.mode == 0 {
        return None;
    }
    Some(node)
}
