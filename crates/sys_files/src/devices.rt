//! The devices that can be opened: tty(IV), null(IV).
ghost use Rattle.std.specs.Prelude.{◌≡◌, ◌<◌, ◌≤◌, IfSome, is_some, length, slice_index};
ghost use Rattle.fs_codec.specs.Store.{Node};
ghost use Rattle.fs_nodes.specs.FileSystem.{Shows};
ghost use Rattle.sys_files.specs.Handed.{Handed, line_of, is_null, node_in};

use crate::inodes::inode_of;
use fs_codec::{DiskNode, is_character_device};
use fs_nodes::Nodes;
use lines_eight::Lines;

/// The number of the null device: major 8, minor 2.
const NULL: u16 = 8 * 256 + 2;

/// The number of the terminal line that an inode is, of those that there are: the character devices 0,0, which is the
/// console, 0,1 and so on.
pub(crate) fn line_of(lines: &Lines, inode: &DiskNode) -> Option<u8>
    ensures line { (h : Handed) (node : Node) → h.lines ≡ lines.now → Shows inode.now node → result ≡ line_of h node }
    ensures there { IfSome result (λ l. l < length lines.now) }
    ensures some { 1 ≤ length lines.now }
    ensures eight { length lines.now ≤ 8 }
{
    let device = inode.addr[0];
    let count = u16::from(lines.count());
    if is_character_device(inode.mode) && device < count {
        return Some(device as u8);
    }
    None
}

/// Whether an inode is a terminal line.
pub(crate) fn is_line(lines: &Lines, inode: &DiskNode) -> bool
    ensures { (h : Handed) (node : Node) → h.lines ≡ lines.now → Shows inode.now node → result ≡ is_some (line_of h node) }
{
    line_of(lines, inode).is_some()
}

/// Whether an inode is the null device: the character device 8, 2.
pub(crate) fn is_null(inode: &DiskNode) -> bool
    ensures { (node : Node) → Shows inode.now node → result ≡ is_null node }
{
    is_character_device(inode.mode) && inode.addr[0] == NULL
}

/// The number of the terminal line that the inode of a number is, which is referred to.
pub(crate) fn line_at(nodes: &Nodes, lines: &Lines, ino: u16) -> Option<u8>
    requires referenced { 0 < slice_index nodes.now.references ino }
    ensures line { (h : Handed) → h.lines ≡ lines.now → result ≡ line_of h (node_in nodes.now.store ino) }
    ensures there { IfSome result (λ l. l < length lines.now) }
    ensures some { 1 ≤ length lines.now }
    ensures eight { length lines.now ≤ 8 }
{
    line_of(lines, &inode_of(nodes, ino))
}
