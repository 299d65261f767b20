//! The table of inodes in memory.
ghost use Rattle.std.specs.Prelude.{◌≡◌, ◌≢◌, ◌<◌, ◌≤◌, true, false, IfSome, IfNone, MatchOption, None, length, slice_index, slice_index_or, slice_set};
ghost use Rattle.buf_cache.specs.Blocks.{WritesLate};
ghost use Rattle.fs_codec.specs.Fields.{fields_of};
ghost use Rattle.fs_codec.specs.Modes.{is_device, is_directory};
ghost use Rattle.fs_codec.specs.Disk.{Disk, inode, inode_count};
ghost use Rattle.fs_codec.specs.Held.{addresses};
ghost use Rattle.fs_codec.specs.Store.{node_numbered};
ghost use Rattle.fs_laws.specs.Whole.{IsApart};
ghost use Rattle.fs_blocks.specs.State.{State, disk};
ghost use Rattle.fs_nodes.specs.one_disk.FileSystem.{store_now, ShowsNode};
ghost use Rattle.fs_nodes.specs.one_disk.Inodes.{Carries};
ghost use Rattle.fs_nodes.specs.one_disk.Moves.{CarriesLate};
ghost use Rattle.fs_nodes.specs.one_disk.Table.{entries_of, once_more, files_of, seen, KeepsInode, IsTable, IsHeld, HasInode};
ghost use Rattle.fs_nodes.specs.declared.one_disk.table.Referenced.{Referenced};

use crate::one_disk::inodes::{read_inode, read_used, see, see_addresses};
use arrayvec::ArrayVec;
use fs_blocks::Volume;
use fs_codec::DiskNode;

/// An inode in memory: Lions' Commentary, `inode.h`.
#[derive(Clone, Copy)]
pub(crate) struct Referenced {
    pub(crate) ino: u16,
    /// How many refer to it, at least one.
    pub(crate) references: u16,
    pub(crate) node: DiskNode,
    /// Whether its block is still to get it.
    pub(crate) is_changed: bool,
}

impl Default for Referenced {
    fn default() -> Referenced {
        Referenced {
            ino: 0,
            references: 0,
            node: DiskNode {
                mode: 0,
                nlink: 0,
                uid: 0,
                gid: 0,
                size: 0,
                addr: [0; 8],
                actime: 0,
                modtime: 0,
            },
            is_changed: false,
        }
    }
}

/// The place of an inode in the table.
pub(crate) fn find(table: &[Referenced], ino: u16) -> Option<usize>
    ensures some { IfSome result (λ k. (k < length table.now)
        × ((entry : Referenced) → (slice_index_or table.now k entry).ino ≡ ino)) }
    ensures none { IfNone result (entries_of table.now ino ≡ 0) }
{
    for k in 0..table.len() {
        if table[k].ino == ino {
            return Some(k);
        }
    }
    None
}

/// The place of an inode that the table has.
pub(crate) fn place(table: &[Referenced], ino: u16) -> usize
    requires { 1 ≤ entries_of table.now ino }
    ensures low { result < length table.now }
    ensures here { (entry : Referenced) → (slice_index_or table.now result entry).ino ≡ ino }
{
    match find(table, ino) {
        Some(k) => k,
        None => 0,
    }
}

/// Refers once more to an inode that the table has.
pub(crate) fn refer_again(table: &mut [Referenced], k: usize)
    requires place { k < length table.old }
    requires few { (entry : Referenced) → (slice_index_or table.old k entry).references < 65535 }
    ensures { (entry : Referenced)
        → table.new ≡ slice_set table.old k (once_more (slice_index_or table.old k entry)) }
{
    table[k].references += 1;
}

/// The inode of a number that the table has.
pub(crate) fn inode_in(table: &[Referenced], ino: u16) -> DiskNode
    requires { 1 ≤ entries_of table.now ino }
    ensures { (disk : Disk) → IsTable disk table.now → fields_of result ≡ inode disk ino }
{
    table[place(table, ino)].node
}

/// The inode of a number that is referred to.
pub(crate) fn inode_of(volume: &Volume, table: &ArrayVec<Referenced, 100>, ino: u16) -> DiskNode
    requires held { IsHeld volume.now.state table.now.items }
    requires referenced { 0 < slice_index (files_of volume.now table.now.items).references ino }
    ensures here { HasInode (seen volume.now.state table.now.items) table.now.items ino (fields_of result) }
    ensures used { result.mode ≢ 0 }
    ensures apart { is_device result.mode ≡ false
        → IsApart (disk volume.now.state) (addresses (disk volume.now.state) (fields_of result)) }
{
    see(volume);
    inode_in(table, ino)
}

/// The inode of a number: the one in memory, or else that of its block.
pub(crate) fn peek_inode(volume: &mut Volume, table: &[Referenced], ino: u16) -> DiskNode
    requires held { IsHeld volume.old.state table.now }
    requires low { 1 ≤ ino }
    requires high { ino ≤ inode_count (disk volume.old.state) }
    ensures node { fields_of result ≡ inode (disk (seen volume.old.state table.now)) ino }
    ensures same { volume.new.state ≡ volume.old.state }
    ensures stored { WritesLate volume.old.stored volume.old.state.blocks volume.new.stored }
{
    match find(table, ino) {
        Some(k) => table[k].node,
        None => read_inode(volume, ino),
    }
}

/// The inode of a number, where it is used: the one in memory, or else that of its block.
pub(crate) fn peek_used(volume: &mut Volume, table: &[Referenced], ino: u16) -> Option<DiskNode>
    requires { IsHeld volume.old.state table.now }
    ensures used { MatchOption result (node_numbered (store_now (seen volume.old.state table.now)) ino ≡ None)
        (λ node. ShowsNode (node_numbered (store_now (seen volume.old.state table.now)) ino) node) }
    ensures same { volume.new.state ≡ volume.old.state }
    ensures stored { WritesLate volume.old.stored volume.old.state.blocks volume.new.stored }
{
    if let Some(k) = find(table, ino) {
        return Some(table[k].node);
    }
    read_used(volume, ino)
}

/// Makes this the inode of a number that the table has. Its block gets it later.
fn keep(table: &mut [Referenced], ino: u16, node: &DiskNode)
    requires { 1 ≤ entries_of table.old ino }
    ensures { KeepsInode table.old ino node.now table.new }
{
    let k = place(table, ino);
    let references = table[k].references;
    table[k] = Referenced {
        ino,
        references,
        node: *node,
        is_changed: true,
    };
}

/// Makes an inode, whose blocks may have moved, that of its number. Its block gets it later.
pub(crate) fn carry_inode(
    volume: &Volume,
    table: &mut ArrayVec<Referenced, 100>,
    ino: u16,
    node: &DiskNode,
)
    requires { 1 ≤ entries_of table.old.items ino }
    ensures { (old : State) → IsHeld old table.old.items
        → Carries old (inode (disk (seen old table.old.items)) ino) volume.now.state (fields_of node.now)
        → node.now.mode ≢ 0 → (ino ≡ 1 → is_directory node.now.mode ≡ true)
        → CarriesLate old volume.now.state table.old.items table.new.items ino (fields_of node.now) }
{
    see(volume);
    see_addresses(&node.addr);
    keep(table, ino, node);
}
