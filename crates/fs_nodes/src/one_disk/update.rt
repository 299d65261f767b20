//! What has changed is written to the disk.
ghost use Rattle.std.specs.Prelude.{◌≡◌, ◌≤◌, ◌<◌, true, false, length, slice_index_or, slice_set, if◌then◌else◌};
ghost use Rattle.buf_cache.specs.Blocks.{block_at, WritesLate};
ghost use Rattle.fs_codec.specs.Disk.{inode_count};
ghost use Rattle.fs_codec.specs.Fields.{fields_of};
ghost use Rattle.fs_codec.specs.Stands.{StandsFor};
ghost use Rattle.fs_codec.specs.declared.layout.TheConstants.{DISK_BLOCKS};
ghost use Rattle.fs_blocks.specs.State.{disk};
ghost use Rattle.fs_nodes.specs.one_disk.FileSystem.{SameRest};
ghost use Rattle.fs_nodes.specs.one_disk.Inodes.{WritesInode};
ghost use Rattle.fs_nodes.specs.one_disk.Table.{clean, IsHeld, SavesAll, Stays};
ghost use Rattle.fs_nodes.specs.declared.one_disk.table.Referenced.{Referenced};

use crate::one_disk::inodes::{see, write_inode};
use crate::one_disk::nodes::{DiskNodes, see_sizes};
use crate::one_disk::table::Referenced;
use fs_blocks::Volume;

/// Writes an inode into its block, where it has changed.
fn write_entry(volume: &mut Volume, entry: &Referenced)
    requires low { 1 ≤ entry.now.ino }
    requires high { entry.now.ino ≤ inode_count (disk volume.old.state) }
    ensures written { entry.now.is_changed ≡ true
        → WritesInode volume.old.state entry.now.ino (fields_of entry.now.node) volume.new.state }
    ensures same { entry.now.is_changed ≡ false → volume.new.state ≡ volume.old.state }
    ensures stored { WritesLate volume.old.stored volume.old.state.blocks volume.new.stored }
{
    if entry.is_changed {
        write_inode(volume, entry.ino, &entry.node);
    }
}

/// Writes the inode of an entry into its block, where it has changed. It has not changed then.
pub(crate) fn save(volume: &mut Volume, table: &mut [Referenced], k: usize)
    requires held { IsHeld volume.old.state table.old }
    requires low { k < length table.old }
    ensures stays { Stays volume.old.state volume.new.state table.old table.new }
    ensures stored { WritesLate volume.old.stored volume.old.state.blocks volume.new.stored }
    ensures table { (entry : Referenced)
        → table.new ≡ slice_set table.old k (clean (slice_index_or table.old k entry)) }
{
    see_sizes(volume);
    write_entry(volume, &table[k]);
    see(volume);
    see_sizes(volume);
    table[k].is_changed = false;
}

/// Writes each inode that has changed into its block.
fn save_all(volume: &mut Volume, table: &mut [Referenced])
    requires { IsHeld volume.old.state table.old }
    ensures { SavesAll volume.old.state table.old volume.new.state table.new (length table.old) }
{
    for k in 0..table.len() {
        save(volume, table, k);
    }
}

impl DiskNodes {
    /// Writes to the disk what has changed: inodes, blocks, and the super-block, with a time, where it has changed. The
    /// blocks on the disk stand for the file system then. `update` in Lions' Commentary, `alloc.c`.
    pub fn update_all(&mut self, time: u32)
        ensures store { self.new.store
            ≡ (if self.old.store.mark then record self.old.store { stamp = time; mark = false } else self.old.store) }
        ensures references { self.new.references ≡ self.old.references }
        ensures stored { self.new.stored ≡ self.new.blocks }
        ensures stands { StandsFor DISK_BLOCKS (block_at self.new.stored) self.new.store }
        ensures rest { SameRest self.old self.new }
    {
        save_all(&mut self.volume, &mut self.table);
        self.volume.sync(time);
        see(&self.volume);
        see_sizes(&self.volume);
    }
}
