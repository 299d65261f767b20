//! Files that give their blocks back.
ghost use Rattle.std.specs.Prelude.{◌≡◌, ◌<◌, Some, slice_index};
ghost use Rattle.fs_codec.specs.Store.{Node, node_numbered};
ghost use Rattle.fs_laws.specs.Numbers.{with_truncated};
ghost use Rattle.fs_nodes.specs.one_disk.FileSystem.{SameRest};

use crate::one_disk::nodes::DiskNodes;
use crate::one_disk::table::{carry_inode, inode_of};
use fs_codec::is_device;

impl DiskNodes {
    /// Gives all blocks of a file back, at a time. A device stays as it is. `itrunc` in Lions' Commentary, `iget.c`.
    pub fn truncate(&mut self, ino: u16, time: u32)
        requires referenced { 0 < slice_index self.old.references ino }
        ensures store { (node : Node) → node_numbered self.old.store ino ≡ Some node
            → self.new.store ≡ with_truncated self.old.store ino node time }
        ensures references { self.new.references ≡ self.old.references }
        ensures rest { SameRest self.old self.new }
    {
        let mut node = inode_of(&self.volume, &self.table, ino);
        if is_device(node.mode) {
            return;
        }
        self.volume.truncate(&mut node);
        node.modtime = time;
        carry_inode(&self.volume, &mut self.table, ino, &node);
    }
}
