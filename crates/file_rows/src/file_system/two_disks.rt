//! Two disks, by hand from docs/manual/inodes.md and names.md: inodes by their keys, a hundred of both that are referred to,
//! new inodes on the second one, and names that cross to it.
ghost use Rattle.std.specs.Prelude.{◌≡◌, ◌≤◌, ◌<◌, ℕ, IsSome, slice_index};
ghost use Rattle.fs_codec.specs.declared.layout.TheConstants.{DISK_BLOCKS};
ghost use Rattle.fs_tree.specs.Mounting.{AreMounts};

use crate::file_system::calls::{Call, Told, answer};
use crate::file_system::fixtures::{Word, have};
use crate::file_system::names::{Ask, Row as Name, answers, memory_with};
use crate::file_system::names_disk::{OTHER, SUPER, inode_at, names_disk};
use crate::file_system::opened::{open_both, takes};
use Ask::{Find, Make, Remove};
use Call::{Links, Put, Read, Take, Truncate, Write};
use fs_nodes::Nodes;
use fs_tree::{Made, NameBytes, Tree};
use std::alloc::{AllocError, Global};
use v6_base::Errno;

/// The key of inode 1 of the second disk. Each disk has 128 inodes.
const SECOND_ROOT: u16 = 129;

/// The second disk differs from the root's, which is that of names: inode 3 has 7 links, and no block is free.
static SECOND: [Word; 2] = [(1090, 0o407), (516, 0)];

/// Calls with what each answers, and then a key, and the links and the size of its inode, or that there is none.
type Row = (&'static [(Call, Told)], u16, Option<(u8, u32)>);

static KEYS: [Row; 17] = [
    (&[], 3, Some((2, 0))),
    (&[], 131, Some((7, 0))),
    (&[], 128, Some((1, 0))),
    (&[], 129, Some((2, 229))),
    (&[], 256, Some((1, 0))),
    (&[], 257, None),
    // Inode 20 is free on both disks.
    (&[], 20, None),
    (&[], 148, None),
    // A call changes the inode of its key, and not that of the same number on the other disk.
    (
        &[(Take(131), (0, None)), (Links(131, 9), (0, None))],
        131,
        Some((9, 0)),
    ),
    (
        &[(Take(131), (0, None)), (Links(131, 9), (0, None))],
        3,
        Some((2, 0)),
    ),
    (
        &[(Take(3), (0, None)), (Links(3, 9), (0, None))],
        131,
        Some((7, 0)),
    ),
    (
        &[
            (Take(131), (0, None)),
            (Links(3, 9), (0, Some(Errno::EINVAL))),
        ],
        3,
        Some((2, 0)),
    ),
    // The second disk has no free block, while the root's has two; and it stays so when a file of the root's is cut.
    (
        &[(Take(3), (0, None)), (Write(3, 0, 100), (100, None))],
        3,
        Some((2, 100)),
    ),
    (
        &[
            (Take(131), (0, None)),
            (Write(131, 0, 100), (0, Some(Errno::ENOSPC))),
        ],
        131,
        Some((7, 0)),
    ),
    (
        &[
            (Take(9), (0, None)),
            (Truncate(9), (0, None)),
            (Take(131), (0, None)),
            (Write(131, 0, 100), (0, Some(Errno::ENOSPC))),
            (Take(137), (0, None)),
            (Read(137, 0, 8), (8, None)),
            (Truncate(137), (0, None)),
            (Write(131, 0, 100), (100, None)),
        ],
        131,
        Some((7, 100)),
    ),
    // One without a link goes with the last reference, but for the root of each disk.
    (
        &[
            (Take(131), (0, None)),
            (Links(131, 0), (0, None)),
            (Put(131), (0, None)),
        ],
        131,
        None,
    ),
    (
        &[
            (Take(129), (0, None)),
            (Links(129, 0), (0, None)),
            (Put(129), (0, None)),
        ],
        129,
        Some((0, 229)),
    ),
];

/// Whether the inode of a key is this.
fn shows(nodes: &mut Nodes, key: u16, wanted: Option<(u8, u32)>) -> bool {
    match nodes.peek(key) {
        Some(inode) => wanted == Some((inode.nlink, inode.size)),
        None => wanted.is_none(),
    }
}

fn holds(alloc: Global, row: &Row) -> Result<bool, AllocError> {
    let (calls, key, wanted) = *row;
    let Some(mut tree) = open_both(alloc, &names_disk(&[]), &names_disk(&SECOND))? else {
        return Ok(false);
    };
    for (call, told) in calls {
        if answer(&mut tree.nodes, *call, 5) != *told {
            return Ok(false);
        }
    }
    Ok(shows(&mut tree.nodes, key, wanted))
}

#[test]
fn a_call_is_for_the_inode_of_its_key(rt: HostRuntime) {
    for (k, row) in KEYS.iter().enumerate() {
        assert!(rt; holds(rt.alloc(), row).expect(&rt, "memory"), "row {k}");
    }
}

/// Refers to the inodes of these keys.
fn takes_all(nodes: &mut Nodes, from: u16, end: u16) -> bool {
    for key in from..end {
        if !takes(nodes, key) {
            return false;
        }
    }
    true
}

/// Ninety inodes of the root's disk and ten of the second one are referred to. One more of either is refused, until one has
/// been given back.
fn fills(nodes: &mut Nodes) -> bool {
    let first = takes_all(nodes, 29, 119) && nodes.holds(0) && !nodes.holds(1);
    let full = takes_all(nodes, 157, 167) && nodes.holds(1);
    let more = takes(nodes, 119) || takes(nodes, 167);
    let back = answer(nodes, Put(29), 5) == (0, None);
    first && full && !more && back && takes(nodes, 167) && !takes(nodes, 119)
}

fn fills_both(alloc: Global) -> Result<bool, AllocError> {
    let image = names_disk(&[]);
    match open_both(alloc, &image, &image)? {
        Some(mut tree) => Ok(fills(&mut tree.nodes)),
        None => Ok(false),
    }
}

#[test]
fn a_hundred_inodes_of_both_disks_are_referred_to(rt: HostRuntime) {
    assert!(rt; fills_both(rt.alloc()).expect(&rt, "memory"));
}

/// A new inode of the second disk.
fn made_there(tree: &mut Tree) -> Result<u16, Errno>
    requires { IsSome tree.old.nodes.store.second }
{
    tree.nodes.new_node(1, 0o644, 5, 6, 9)
}

/// The keys of a new inode of the second disk, and then of one of the root's.
fn makes(alloc: Global, second: &[Word]) -> Result<Option<(Told, Told)>, AllocError> {
    let Some(mut tree) = open_both(alloc, &names_disk(&[]), &names_disk(second))? else {
        return Ok(None);
    };
    let there = match made_there(&mut tree) {
        Ok(key) => (key, None),
        Err(e) => (0, Some(e)),
    };
    let here = answer(&mut tree.nodes, Call::New(0o644, 5, 6), 9);
    Ok(Some((there, here)))
}

/// Words by which the last free inode of a disk of names, number 28, and then those from 12 on are used.
fn used(from: usize) -> [Word; 17] {
    let mut words = [(inode_at(28), 0o100644); 17];
    for k in 0..17usize {
        let ino = from.wrapping_add(k);
        if ino < 29 {
            words[k] = (inode_at(ino), 0o100644);
        }
    }
    words
}

#[test]
fn a_new_inode_is_made_on_the_disk_that_is_asked_for(rt: HostRuntime) {
    // The highest of the free numbers of each disk.
    assert_eq!(rt;
        makes(rt.alloc(), &[]).expect(&rt, "memory"),
        Some(((156, None), (28, None)))
    );
    assert_eq!(rt;
        makes(rt.alloc(), &used(28)).expect(&rt, "memory"),
        Some(((155, None), (28, None)))
    );
    // None is free on the second disk.
    assert_eq!(rt;
        makes(rt.alloc(), &used(12)).expect(&rt, "memory"),
        Some(((0, Some(Errno::ENOSPC)), (28, None)))
    );
}

/// A block of the second disk.
fn block_there(tree: &Tree, n: u16) -> [u8; 512]
    requires block { n < DISK_BLOCKS }
    requires there { IsSome tree.now.nodes.store.second }
{
    *tree.nodes.on_disk(1, n)
}

/// Whether each disk has a block as its image has it.
fn has_blocks(alloc: Global) -> Result<bool, AllocError> {
    let (first, second) = (names_disk(&[]), names_disk(&SECOND));
    let Some(tree) = open_both(alloc, &first, &second)? else {
        return Ok(false);
    };
    let here = *tree.nodes.on_disk(0, 2);
    let there = block_there(&tree, 2);
    Ok(
        have(&here, &[(0, &first[1024..1536])])
            && have(&there, &[(0, &second[1024..1536])])
            && here != there,
    )
}

#[test]
fn each_disk_has_its_blocks(rt: HostRuntime) {
    assert!(rt; has_blocks(rt.alloc()).expect(&rt, "memory"));
}

/// The directory that the second disk covers. Its own entries are `first` and `second`.
const COVERED: u16 = 9;

/// Names while the second disk covers `/sized`. The number of `/far` is 200, which the second disk alone would have as a key.
static NAMES: [Name; 22] = [
    (1, OTHER, b"/sized\0", Find(Ok(SECOND_ROOT))),
    (1, OTHER, b"/sized/\0", Find(Ok(SECOND_ROOT))),
    (1, OTHER, b"/sized/.\0", Find(Ok(SECOND_ROOT))),
    (1, OTHER, b"/sized/init\0", Find(Ok(131))),
    (1, OTHER, b"/sized/etc/own\0", Find(Ok(136))),
    (1, OTHER, b"/init\0", Find(Ok(3))),
    (1, OTHER, b"sized/init\0", Find(Ok(131))),
    // What the directory held can't be reached.
    (1, OTHER, b"/sized/first\0", Find(Err(Errno::ENOENT))),
    // Its root's `..` is that root.
    (1, OTHER, b"/sized/..\0", Find(Ok(SECOND_ROOT))),
    (1, OTHER, b"/sized/../init\0", Find(Ok(131))),
    (1, OTHER, b"/sized/etc/../../init\0", Find(Ok(131))),
    // A name that starts in what is covered starts at the other root.
    (COVERED, OTHER, b"\0", Find(Ok(SECOND_ROOT))),
    (COVERED, OTHER, b"init\0", Find(Ok(131))),
    (COVERED, OTHER, b"first\0", Find(Err(Errno::ENOENT))),
    (130, OTHER, b"../init\0", Find(Ok(131))),
    (130, OTHER, b"/init\0", Find(Ok(3))),
    // A number is one of the directory's own disk.
    (1, SUPER, b"/far\0", Find(Err(Errno::ENOENT))),
    (1, SUPER, b"/sized/far\0", Find(Err(Errno::ENOENT))),
    // Who makes crosses at the last component, and who removes doesn't.
    (1, SUPER, b"/sized\0", Make(Ok(Made::Found(SECOND_ROOT)))),
    (
        1,
        SUPER,
        b"/sized/new\0",
        Make(Ok(Made::Room {
            dir: SECOND_ROOT,
            offset: 48,
            name: *b"new\0\0\0\0\0\0\0\0\0\0\0",
        })),
    ),
    (1, SUPER, b"/sized\0", Remove(Ok((1, 176, COVERED)))),
    (
        1,
        SUPER,
        b"/sized/init\0",
        Remove(Ok((SECOND_ROOT, 64, 131))),
    ),
];

/// Covers a directory by the second disk.
fn cover(tree: &mut Tree, dir: u16) -> bool
    requires there { IsSome tree.old.nodes.store.second }
    ensures nodes { tree.new.nodes ≡ tree.old.nodes }
    ensures mounts { AreMounts tree.old.mounts tree.old.nodes.store → AreMounts tree.new.mounts tree.new.nodes.store }
{
    if !tree.mounts.has_second() {
        return false;
    }
    match tree.mounts.cover(dir) {
        Ok(()) => true,
        Err(_) => false,
    }
}

/// Refers to the directory where a name starts.
fn begins(tree: &mut Tree, dir: u16) -> bool
    requires quiet { (i : ℕ) → slice_index tree.old.nodes.references i ≡ 0 }
    ensures few { (i : ℕ) → slice_index tree.new.nodes.references i ≤ 65530 }
    ensures mounts { AreMounts tree.old.mounts tree.old.nodes.store → AreMounts tree.new.mounts tree.new.nodes.store }
{
    takes(&mut tree.nodes, dir)
}

fn leads(alloc: Global, image: &[u8], row: &Name) -> Result<bool, AllocError> {
    let (dir, user, name, ask) = *row;
    let Some(mut tree) = open_both(alloc, image, image)? else {
        return Ok(false);
    };
    if !cover(&mut tree, COVERED) {
        return Ok(false);
    }
    if !begins(&mut tree, dir) {
        return Ok(false);
    }
    let (space, at) = memory_with(name);
    Ok(answers(&mut tree, dir, user, NameBytes::at(&space, at), ask))
}

#[test]
fn names_cross_to_the_second_disk(rt: HostRuntime) {
    let image = names_disk(&[]);
    for (k, row) in NAMES.iter().enumerate() {
        assert!(rt;
            leads(rt.alloc(), &image, row).expect(&rt, "memory"),
            "row {k}"
        );
    }
}
