//! References to inodes are given back: `iput` in Lions' Commentary, `iget.c`.
ghost use Rattle.std.specs.Prelude.{◌≡◌, ◌-◌, ◌<◌, ◌==◌, length, slice_index, slice_index_or, slice_set, if◌then◌else◌, Some};
ghost use Rattle.buf_cache.specs.Blocks.{WritesLate};
ghost use Rattle.fs_codec.specs.Store.{Node, node_numbered};
ghost use Rattle.fs_laws.specs.Numbers.{without_reference};
ghost use Rattle.fs_laws.specs.Rest.{SameAround};
ghost use Rattle.fs_nodes.specs.one_disk.FileSystem.{store_now, SameRest};
ghost use Rattle.fs_nodes.specs.one_disk.Table.{files_of, seen, IsHeld};
ghost use Rattle.fs_nodes.specs.one_disk.Numbers.{once_less, Releases};
ghost use Rattle.fs_nodes.specs.declared.one_disk.table.Referenced.{Referenced};

use crate::one_disk::nodes::{DiskNodes, see_sizes};
use crate::one_disk::numbers::free_inode;
use crate::one_disk::table::{Referenced, place};
use crate::one_disk::update::save;
use arrayvec::ArrayVec;
use fs_blocks::Volume;

/// Refers once less to an inode of the table that is referred to more than once.
fn refer_less(table: &mut [Referenced], k: usize)
    requires place { k < length table.old }
    requires many { (entry : Referenced) → 1 < (slice_index_or table.old k entry).references }
    ensures { (entry : Referenced) → table.new ≡ slice_set table.old k (once_less (slice_index_or table.old k entry)) }
{
    table[k].references -= 1;
}

/// Takes an inode that is referred to once out of the table. Where it has changed, its block gets it first.
fn release(volume: &mut Volume, table: &mut ArrayVec<Referenced, 100>, k: usize)
    requires held { IsHeld volume.old.state table.old.items }
    requires place { k < length table.old.items }
    ensures released { (entry : Referenced) → slice_index_or table.old.items k entry ≡ entry → entry.references ≡ 1
        → Releases volume.old.state volume.new.state table.old.items table.new.items entry }
    ensures stored { WritesLate volume.old.stored volume.old.state.blocks volume.new.stored }
{
    save(volume, table, k);
    see_sizes(volume);
    table.remove(k);
}

/// Refers once less to an inode of a volume, and frees it where that was the last reference to one without links.
fn put_inode(volume: &mut Volume, table: &mut ArrayVec<Referenced, 100>, ino: u16)
    requires held { IsHeld volume.old.state table.old.items }
    requires referenced { 0 < slice_index (files_of volume.old table.old.items).references ino }
    ensures held { IsHeld volume.new.state table.new.items }
    ensures references { (files_of volume.new table.new.items).references
        ≡ slice_set (files_of volume.old table.old.items).references ino
        (slice_index (files_of volume.old table.old.items).references ino - 1) }
    ensures store { (node : Node) → node_numbered (store_now (seen volume.old.state table.old.items)) ino ≡ Some node
        → store_now (seen volume.new.state table.new.items)
        ≡ (if slice_index (files_of volume.old table.old.items).references ino == 1
        then without_reference (store_now (seen volume.old.state table.old.items)) ino node
        else store_now (seen volume.old.state table.old.items)) }
    ensures late { 1 < slice_index (files_of volume.old table.old.items).references ino → volume.new ≡ volume.old }
    ensures stored { (node : Node) → node_numbered (store_now (seen volume.old.state table.old.items)) ino ≡ Some node
        → 0 < node.nlink → WritesLate volume.old.stored volume.old.state.blocks volume.new.stored }
    ensures rest { SameAround volume.old.state.blocks volume.new.state.blocks }
{
    let k = place(table, ino);
    let entry = table[k];
    if entry.references > 1 {
        refer_less(table, k);
        return;
    }
    release(volume, table, k);
    if entry.node.nlink > 0 {
        return;
    }
    if ino == 1 {
        return;
    }
    free_inode(volume, table, ino, entry.node);
}

impl DiskNodes {
    /// Gives a reference to an inode back. Where it was the last one, and no directory entry names the inode, the inode is
    /// freed with all its blocks; inode 1 never is. `iput` in Lions' Commentary, `iget.c`. The time is the present one.
    pub fn put(&mut self, ino: u16, time: u32)
        requires referenced { 0 < slice_index self.old.references ino }
        ensures references { self.new.references
            ≡ slice_set self.old.references ino (slice_index self.old.references ino - 1) }
        ensures store { (node : Node) → node_numbered self.old.store ino ≡ Some node → self.new.store
            ≡ (if slice_index self.old.references ino == 1
            then without_reference self.old.store ino node else self.old.store) }
        ensures stored { (node : Node) → node_numbered self.old.store ino ≡ Some node → 0 < node.nlink
            → WritesLate self.old.stored self.old.blocks self.new.stored }
        ensures rest { SameRest self.old self.new }
    {
        let _ = time;
        put_inode(&mut self.volume, &mut self.table, ino);
    }
}
