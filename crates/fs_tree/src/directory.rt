//! The entries of a directory: directory(V).
ghost use Rattle.std.specs.Prelude.{◌≡◌, ◌≢◌, ◌+◌, ◌*◌, ◌/◌, ◌%◌, ◌<◌, ◌≤◌, ◌==◌, ◌&&◌, not, if◌then◌else◌, Some, None, is_some, length, slice_range};
ghost use Rattle.std.specs.Prelude.{IsSome, bytes_eq};
ghost use Rattle.fs_codec.specs.Fields.{entry_of};
ghost use Rattle.fs_codec.specs.Store.{Node};
ghost use Rattle.fs_nodes.specs.Keys.{node_numbered};
ghost use Rattle.fs_nodes.specs.FileSystem.{SameFiles};
ghost use Rattle.fs_tree.specs.Directory.{entry_at, looked, HasBlock};
ghost use Rattle.fs_tree.specs.declared.directory.TheConstants.{BLOCK_ENTRIES};

use fs_codec::{DirEntry, read_entry};
use fs_nodes::Nodes;

/// How many entries a block has.
const BLOCK_ENTRIES: u16 = 32;

/// What a search of a directory for a name comes to. Places are numbers of entries.
#[derive(Clone, Copy)]
pub(crate) enum Looked {
    /// The place of the first entry of this name, and its inode number.
    Entry(u16, u16),
    /// The place where there is room for such an entry.
    Room(u16),
}

/// The entry at a place of a block.
fn entry_in(block: &[u8; 512], place: u16) -> DirEntry
    requires { place < BLOCK_ENTRIES }
    ensures entry { result ≡ entry_of (slice_range block.now (16 * place) (16 * place + 16)) }
    ensures long { length block.now ≡ 512 }
{
    let at = 16 * place as usize;
    let mut bytes = [0; 16];
    bytes.copy_from_slice(&block[at..at + 16]);
    read_entry(&bytes)
}

/// The entry at a place of a directory. Its block is fetched with the first entry that stands there, and is at hand for the
/// others.
fn entry(nodes: &mut Nodes, dir: u16, block: &mut [u8; 512], place: u16) -> DirEntry
    requires node { IsSome (node_numbered nodes.old.store dir) }
    requires block { (node : Node) → node_numbered nodes.old.store dir ≡ Some node
        → place % BLOCK_ENTRIES ≢ 0 → HasBlock node (place / BLOCK_ENTRIES) block.old }
    ensures entry { (node : Node) → node_numbered nodes.old.store dir ≡ Some node
        → 16 * place + 16 ≤ node.size → result ≡ entry_at node place }
    ensures block { (node : Node) → node_numbered nodes.old.store dir ≡ Some node
        → HasBlock node (place / BLOCK_ENTRIES) block.new }
    ensures same { SameFiles nodes.old nodes.new }
{
    if place % BLOCK_ENTRIES == 0 {
        nodes.look_block(dir, place / BLOCK_ENTRIES, block);
    }
    entry_in(block, place % BLOCK_ENTRIES)
}

/// Whether an entry is there and has this name.
fn is_named(entry: &DirEntry, name: &[u8; 14]) -> bool
    ensures { result ≡ (not (entry.now.ino == 0) && bytes_eq entry.now.name name.now) }
{
    // most names differ in their first byte
    entry.ino != 0 && entry.name[0] == name[0] && entry.name == *name
}

/// The first empty place, where those before one are known.
fn first_empty(empty: Option<u16>, place: u16, is_empty: bool) -> Option<u16>
    ensures { result ≡ (if is_some empty then empty else (if is_empty then Some place else None)) }
{
    match empty {
        Some(first) => Some(first),
        None if is_empty => Some(place),
        None => None,
    }
}

/// Looks at the entries of a directory in order, at each once, up to the first of this name.
pub(crate) fn look_up(nodes: &mut Nodes, dir: u16, size: u32, name: &[u8; 14]) -> Looked
    requires node { IsSome (node_numbered nodes.old.store dir) }
    ensures looked { (node : Node) → node_numbered nodes.old.store dir ≡ Some node → node.size ≡ size
        → result ≡ looked node name.now }
    ensures same { SameFiles nodes.old nodes.new }
{
    let count = (size % 65536 / 16) as u16;
    let mut block = [0; 512];
    let mut empty: Option<u16> = None;
    for place in 0..count {
        let entry = entry(nodes, dir, &mut block, place);
        empty = first_empty(empty, place, entry.ino == 0);
        if is_named(&entry, name) {
            return Looked::Entry(place, entry.ino);
        }
    }
    Looked::Room(empty.unwrap_or(count))
}
