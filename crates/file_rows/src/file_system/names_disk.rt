//! The disk on which names are looked for: twenty blocks, of which 18 and 19 are free, with 128 inodes.
ghost use Rattle.std.specs.Prelude.{◌≡◌, ◌≤◌, ℕ, None, IfOk, IfSome, slice_index};
ghost use Rattle.fs_tree.specs.Mounting.{AreMounts};

use crate::file_system::fixtures::{TWENTY_BLOCKS, Word, put, put_words};
use crate::file_system::opened::{open, takes};
use fs_nodes::Nodes;
use fs_tree::{Tree, User};
use std::alloc::{AllocError, Global};

pub const SUPER: User = User { uid: 0, gid: 0 };

/// The owner of most inodes, who is not in their group.
pub const OWNER: User = User { uid: 1, gid: 9 };

pub const GROUP: User = User { uid: 9, gid: 2 };

pub const OTHER: User = User { uid: 9, gid: 9 };

/// Eight blocks of inodes, twenty blocks, and the free blocks 18 and 19, of which 18 is taken first.
static HEAD: [Word; 6] = [
    (512, 8),
    (514, 20),
    (516, 3),
    (518, 0),
    (520, 19),
    (522, 18),
];

/// An inode: its number, mode, links, owner, group, size, and first two addresses.
type Inode = (usize, u16, u16, u16, u16, u32, u16, u16);

/// Inodes 12 to 28 are free, and those from 29 to 128 are plain files with a link.
static INODES: [Inode; 11] = [
    // The root has 14 entries, and 5 bytes more. Inode 2 has 4 entries, and 15 bytes more.
    (1, 0o140755, 2, 0, 0, 229, 10, 0),
    (2, 0o140755, 2, 1, 2, 79, 11, 0),
    (3, 0o100644, 2, 1, 2, 0, 0, 0),
    // Nobody may search it.
    (4, 0o140600, 2, 1, 2, 48, 12, 0),
    (5, 0o100644, 2, 1, 2, 0, 0, 0),
    // It has 34 entries, of which the first 32 are in a block that it does not have.
    (6, 0o140755, 2, 1, 2, 544, 0, 13),
    // It has 65,568 bytes, and so two entries that are looked at. Only its group may search it.
    (7, 0o140010, 2, 1, 2, 65_568, 14, 0),
    // It has no empty entry. Only its owner may write and search it.
    (8, 0o140700, 2, 1, 2, 32, 15, 0),
    (9, 0o140755, 2, 0, 0, 32, 16, 0),
    // A directory without a link.
    (10, 0o140777, 0, 0, 0, 16, 17, 0),
    // Character device 8, 1.
    (11, 0o120666, 1, 0, 0, 0, 0o004001, 0),
];

/// An entry: the block, the place in it, the inode number and the name.
type Entry = (usize, usize, u16, &'static [u8]);

static ENTRIES: [Entry; 35] = [
    (10, 0, 1, b"."),
    (10, 1, 1, b".."),
    (10, 2, 2, b"etc"),
    (10, 3, 0, b"init"),
    (10, 4, 3, b"init"),
    // A number of a free inode, and one that no inode has.
    (10, 5, 20, b"free"),
    (10, 6, 200, b"far"),
    (10, 7, 4, b"closed"),
    (10, 8, 5, b"abcdefghijklmn"),
    (10, 9, 6, b"holes"),
    (10, 10, 7, b"large"),
    (10, 11, 9, b"sized"),
    (10, 12, 10, b"loose"),
    (10, 13, 11, b"tty"),
    (10, 14, 3, b"past"),
    (11, 0, 2, b"."),
    (11, 1, 1, b".."),
    (11, 2, 0, b"gone"),
    (11, 3, 8, b"own"),
    (11, 4, 3, b"past"),
    (12, 0, 4, b"."),
    (12, 1, 1, b".."),
    (12, 2, 3, b"in"),
    (13, 0, 3, b"deep"),
    (14, 0, 3, b"first"),
    (14, 1, 5, b"second"),
    (14, 2, 3, b"third"),
    (15, 0, 8, b"."),
    (15, 1, 20, b"free"),
    (16, 0, 3, b"first"),
    (16, 1, 5, b"second"),
    (17, 0, 3, b"x"),
    // What was in the free blocks.
    (18, 1, 7, b"old"),
    (19, 0, 7, b"old"),
    (19, 31, 7, b"old"),
];

/// The place of inode `ino`.
pub fn inode_at(ino: usize) -> usize {
    ino.wrapping_mul(32).wrapping_add(992)
}

fn put_inode(image: &mut [u8], inode: &Inode) {
    let (ino, mode, links, uid, gid, size, first, second) = *inode;
    let at = inode_at(ino);
    put_words(
        image,
        &[
            (at, mode),
            (
                at.wrapping_add(2),
                links.wrapping_add(uid.wrapping_mul(256)),
            ),
            (
                at.wrapping_add(4),
                gid.wrapping_add((size / 65536 % 256) as u16 * 256),
            ),
            (at.wrapping_add(6), (size % 65536) as u16),
            (at.wrapping_add(8), first),
            (at.wrapping_add(10), second),
        ],
    );
}

fn put_entry(image: &mut [u8], entry: &Entry) {
    let (block, place, ino, name) = *entry;
    let at = block.wrapping_mul(512).wrapping_add(place.wrapping_mul(16));
    put_words(image, &[(at, ino)]);
    put(image, &[(at.wrapping_add(2), name)]);
}

/// The disk with these words in the place of others.
pub fn names_disk(changed: &[Word]) -> [u8; TWENTY_BLOCKS] {
    let mut image = [0; TWENTY_BLOCKS];
    put_words(&mut image, &HEAD);
    for inode in &INODES {
        put_inode(&mut image, inode);
    }
    for ino in 29..129 {
        put_words(
            &mut image,
            &[
                (inode_at(ino), 0o100644),
                (inode_at(ino).wrapping_add(2), 1),
            ],
        );
    }
    for entry in &ENTRIES {
        put_entry(&mut image, entry);
    }
    put_words(&mut image, changed);
    image
}

/// Refers to so many of the inodes from 29 on.
fn takes_others(nodes: &mut Nodes, others: u16) -> bool
    requires few { (i : ℕ) → slice_index nodes.old.references i ≤ 1 }
    requires some { others ≤ 100 }
    ensures few { (i : ℕ) → slice_index nodes.new.references i ≤ 65530 }
    ensures store { nodes.new.store ≡ nodes.old.store }
{
    for k in 0..others {
        if !takes(nodes, 29 + k) {
            return false;
        }
    }
    true
}

/// Refers to the directory where a name starts, and to so many others.
fn starts(nodes: &mut Nodes, dir: u16, others: u16) -> bool
    requires quiet { (i : ℕ) → slice_index nodes.old.references i ≡ 0 }
    ensures few { (i : ℕ) → slice_index nodes.new.references i ≤ 65530 }
    ensures store { nodes.new.store ≡ nodes.old.store }
{
    if others > 100 {
        return false;
    }
    if !takes(nodes, dir) {
        return false;
    }
    takes_others(nodes, others)
}

/// The tree on one disk, whose inodes' numbers are words.
fn tree_on(nodes: Nodes) -> Tree
    requires one { nodes.store.second ≡ None }
    requires few { nodes.store.root.count ≤ 65535 }
    ensures nodes { result.nodes ≡ nodes }
    ensures mounts { AreMounts result.mounts result.nodes.store }
{
    Tree::new(nodes)
}

/// The tree on an image, where its directory and so many others are referred to.
pub fn open_tree(
    alloc: Global,
    image: &[u8],
    dir: u16,
    others: u16,
) -> Result<Option<Tree>, AllocError>
    ensures few { IfOk result (λ opened. IfSome opened (λ tree. (i : ℕ) → slice_index tree.nodes.references i ≤ 65530)) }
    ensures mounts { IfOk result (λ opened. IfSome opened (λ tree. AreMounts tree.mounts tree.nodes.store)) }
{
    let Some(mut nodes) = open(alloc, image)? else {
        return Ok(None);
    };
    if !starts(&mut nodes, dir, others) {
        return Ok(None);
    }
    let count = nodes.root_count();
    if count > 65535 {
        return Ok(None);
    }
    Ok(Some(tree_on(nodes)))
}
