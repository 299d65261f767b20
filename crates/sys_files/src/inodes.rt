//! The inodes that a call works on: `inode.h` in Lions' Commentary.
ghost use Rattle.std.specs.Prelude.{◌≡◌, ◌<◌, slice_index};
ghost use Rattle.fs_nodes.specs.Keys.{node_numbered};
ghost use Rattle.fs_nodes.specs.FileSystem.{ShowsNode};
ghost use Rattle.mount_tab.specs.Mounted.{split_of};

use crate::files::Files;
use fs_codec::DiskNode;
use fs_nodes::Nodes;

/// The root's disk, on which pipes are.
pub(crate) const ROOT_DISK: u8 = 0;

/// The disk of an inode: 0 is the root's, and 1 the second one.
pub(crate) fn disk_of(f: &Files, ino: u16) -> u8
    ensures disk { result ≡ (split_of f.now.tree.mounts ino).0 }
    ensures device { result < 2 }
{
    f.tree.mounts.split(ino).0
}

/// An inode that is referred to.
pub(crate) fn inode_of(nodes: &Nodes, ino: u16) -> DiskNode
    requires referenced { 0 < slice_index nodes.now.references ino }
    ensures { ShowsNode (node_numbered nodes.now.store ino) result }
{
    *nodes.node(ino)
}
