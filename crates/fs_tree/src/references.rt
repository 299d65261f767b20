//! References to inodes are taken and given back: iget and iput in Lions' Commentary, `iget.c`.
ghost use Rattle.std.specs.Prelude.{◌≡◌, ◌<◌, slice_index};
ghost use Rattle.fs_nodes.specs.FileSystem.{SameRest};
ghost use Rattle.fs_tree.specs.Finding.{inodes_of, with_reference, put_back};

use fs_nodes::Nodes;

/// Refers once more to an inode that is referred to. `iget`.
pub fn refer_again(nodes: &mut Nodes, ino: u16)
    requires referenced { 0 < slice_index nodes.old.references ino }
    requires few { slice_index nodes.old.references ino < 65535 }
    ensures inodes { inodes_of nodes.new ≡ with_reference (inodes_of nodes.old) ino }
    ensures blocks { nodes.new.blocks ≡ nodes.old.blocks }
{
    nodes.see();
    let _ = nodes.take(ino);
}

/// Gives a reference to an inode back, at a time in seconds. With the last one an inode that has no link is freed, and else
/// written where it has changed. `iput`.
pub fn let_go(nodes: &mut Nodes, ino: u16, time: u32)
    requires referenced { 0 < slice_index nodes.old.references ino }
    ensures inodes { inodes_of nodes.new ≡ put_back (inodes_of nodes.old) ino }
    ensures rest { SameRest nodes.old nodes.new }
{
    nodes.see();
    nodes.put(ino, time);
}
