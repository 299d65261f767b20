//! Files whose text is shared, by hand from docs/manual/names.md, which is access of Lions' Commentary, `fio.c`, and xalloc and
//! xfree of `text.c`.
ghost use Rattle.std.specs.Prelude.{◌≡◌, ◌<◌, ◌≤◌, ℕ, false, slice_index};
ghost use Rattle.fs_tree.specs.Finding.{inodes_of, with_reference};
ghost use Rattle.fs_tree.specs.Marks.{is_marked, with_mark};
ghost use Rattle.fs_tree.specs.Mounting.{AreMounts};

use crate::file_system::names::{Ask, Row as Search, answers as is_answered, memory_with, refers};
use crate::file_system::names_disk::{GROUP, OTHER, OWNER, SUPER, inode_at, names_disk, open_tree};
use crate::file_system::opened::takes;
use Ask::{Find, Make, Remove};
use Want::{Execute, Read, Write};
use fs_nodes::Nodes;
use fs_tree::{Made, NameBytes, Tree, User, Want};
use std::alloc::{AllocError, Global};
use v6_base::Errno;

/// The nine bits of inode 3, whose text is shared; a user; what that one wants; the answer; and the answer when the text is
/// shared no longer.
type Row = (u16, User, Want, Result<(), Errno>, Result<(), Errno>);

const BUSY: Result<(), Errno> = Err(Errno::ETXTBSY);

const NOT_ALLOWED: Result<(), Errno> = Err(Errno::EACCES);

static ROWS: [Row; 14] = [
    // Nobody may write it, user 0 no more than others, whatever the bits are.
    (0o777, SUPER, Write, BUSY, Ok(())),
    (0o000, SUPER, Write, BUSY, Ok(())),
    (0o200, OWNER, Write, BUSY, Ok(())),
    (0o577, OWNER, Write, BUSY, NOT_ALLOWED),
    (0o757, GROUP, Write, BUSY, NOT_ALLOWED),
    (0o002, OTHER, Write, BUSY, Ok(())),
    // To read and to execute it, the bits count as ever.
    (0o000, SUPER, Read, Ok(()), Ok(())),
    (0o377, OWNER, Read, NOT_ALLOWED, NOT_ALLOWED),
    (0o040, GROUP, Read, Ok(()), Ok(())),
    (0o004, OTHER, Read, Ok(()), Ok(())),
    (0o666, SUPER, Execute, NOT_ALLOWED, NOT_ALLOWED),
    (0o001, SUPER, Execute, Ok(()), Ok(())),
    (0o100, OWNER, Execute, Ok(()), Ok(())),
    (0o767, GROUP, Execute, NOT_ALLOWED, NOT_ALLOWED),
];

/// Marks an inode, and leaves the mounts.
fn put_mark(tree: &mut Tree, ino: u16)
    requires referenced { 0 < slice_index tree.old.nodes.references ino }
    requires few { (i : ℕ) → slice_index tree.old.nodes.references i ≤ 65530 }
    requires unmarked { is_marked tree.old.marks ino ≡ false }
    ensures marks { tree.new.marks ≡ with_mark tree.old.marks ino }
    ensures inodes { inodes_of tree.new.nodes ≡ with_reference (inodes_of tree.old.nodes) ino }
    ensures mounts { AreMounts tree.old.mounts tree.old.nodes.store → AreMounts tree.new.mounts tree.new.nodes.store }
{
    tree.mark_text(ino);
}

/// Marks an inode to which one refers, and says whether there is a reference more then.
fn mark(tree: &mut Tree, ino: u16) -> bool
    requires few { (i : ℕ) → slice_index tree.old.nodes.references i ≤ 65530 }
    ensures few { (i : ℕ) → slice_index tree.new.nodes.references i ≤ 65530 }
    ensures mounts { AreMounts tree.old.mounts tree.old.nodes.store → AreMounts tree.new.mounts tree.new.nodes.store }
{
    let count = tree.nodes.refs(ino);
    if count == 0 || count > 9 || tree.marks.has(ino) {
        return false;
    }
    put_mark(tree, ino);
    tree.marks.has(ino) && tree.nodes.refs(ino) == count + 1
}

/// Takes the mark away, and says whether there is a reference less then.
fn unmark(tree: &mut Tree, ino: u16) -> bool
    ensures few { ((i : ℕ) → slice_index tree.old.nodes.references i ≤ 65530)
        → (i : ℕ) → slice_index tree.new.nodes.references i ≤ 65530 }
{
    let count = tree.nodes.refs(ino);
    if count == 0 || !tree.marks.has(ino) {
        return false;
    }
    tree.unmark_text(ino, 9);
    !tree.marks.has(ino) && tree.nodes.refs(ino) == count - 1
}

/// Whether this is the answer to who wants to use an inode.
fn answers(tree: &Tree, ino: u16, user: User, want: Want, answer: Result<(), Errno>) -> bool {
    tree.nodes.refs(ino) > 0 && tree.access(ino, user, want) == answer
}

fn holds(alloc: Global, row: &Row) -> Result<bool, AllocError> {
    let (bits, user, want, shared, unshared) = *row;
    let image = names_disk(&[(inode_at(3), 0o100000 | bits)]);
    let Some(mut tree) = open_tree(alloc, &image, 3, 0)? else {
        return Ok(false);
    };
    if !answers(&tree, 3, user, want, unshared) || !mark(&mut tree, 3) {
        return Ok(false);
    }
    Ok(
        answers(&tree, 3, user, want, shared)
            && unmark(&mut tree, 3)
            && answers(&tree, 3, user, want, unshared),
    )
}

/// A file without a link, which stays as long as its text is shared.
fn stays(alloc: Global) -> Result<bool, AllocError> {
    let image = names_disk(&[(inode_at(3).wrapping_add(2), 256)]);
    let Some(mut tree) = open_tree(alloc, &image, 3, 0)? else {
        return Ok(false);
    };
    if !mark(&mut tree, 3) || tree.nodes.refs(3) != 2 {
        return Ok(false);
    }
    tree.nodes.put(3, 9);
    let is_there = tree.nodes.peek(3).is_some();
    Ok(is_there && unmark(&mut tree, 3) && tree.nodes.peek(3).is_none())
}

/// Room for the entry `new` in the root, in inode 2 and in inode 8.
const IN_ROOT: Made = Made::Room {
    dir: 1,
    offset: 48,
    name: *b"new\0\0\0\0\0\0\0\0\0\0\0",
};

const IN_ETC: Made = Made::Room {
    dir: 2,
    offset: 32,
    name: *b"new\0\0\0\0\0\0\0\0\0\0\0",
};

const IN_OWN: Made = Made::Room {
    dir: 8,
    offset: 32,
    name: *b"new\0\0\0\0\0\0\0\0\0\0\0",
};

/// What is asked while the inode is marked at which a name may start.
static SEARCHES: [Search; 27] = [
    // A directory that is marked gets no entry and loses none, whoever asks. Whether the user may write it comes after.
    (2, SUPER, b"/etc/new\0", Make(Err(Errno::ETXTBSY))),
    (2, OWNER, b"new\0", Make(Err(Errno::ETXTBSY))),
    (2, OTHER, b"/etc/new\0", Make(Err(Errno::ETXTBSY))),
    (1, SUPER, b"/new\0", Make(Err(Errno::ETXTBSY))),
    (2, SUPER, b"/etc/own\0", Remove(Err(Errno::ETXTBSY))),
    (2, OWNER, b"own\0", Remove(Err(Errno::ETXTBSY))),
    (2, OTHER, b"/etc/own\0", Remove(Err(Errno::ETXTBSY))),
    // So does whether the inode of an entry is used.
    (1, SUPER, b"/free\0", Remove(Err(Errno::ETXTBSY))),
    (1, OTHER, b"/far\0", Remove(Err(Errno::ETXTBSY))),
    (1, SUPER, b"/free\0", Make(Err(Errno::ENOENT))),
    // All other tests come before.
    (2, SUPER, b"/etc/new", Make(Err(Errno::EFAULT))),
    (2, OTHER, b"/etc/own", Remove(Err(Errno::EFAULT))),
    (4, SUPER, b"/closed/new\0", Make(Err(Errno::EACCES))),
    (3, SUPER, b"/init/new\0", Make(Err(Errno::ENOTDIR))),
    (2, SUPER, b"/etc/gone\0", Remove(Err(Errno::ENOENT))),
    (2, SUPER, b"\0", Make(Err(Errno::ENOENT))),
    // What it has is found, and it is searched, whatever the user may do.
    (2, OTHER, b"/etc/own\0", Make(Ok(Made::Found(8)))),
    (2, OTHER, b"/etc/own\0", Find(Ok(8))),
    (2, OTHER, b"\0", Find(Ok(2))),
    (2, OTHER, b"/etc/new\0", Find(Err(Errno::ENOENT))),
    (2, OWNER, b"/etc/own/new\0", Make(Ok(IN_OWN))),
    (2, OWNER, b"/etc/own/.\0", Remove(Ok((8, 0, 8)))),
    // Where another inode is marked, be it the one whose entry goes, nothing is new.
    (3, SUPER, b"/init\0", Remove(Ok((1, 64, 3)))),
    (3, OWNER, b"/etc/new\0", Make(Ok(IN_ETC))),
    (3, OTHER, b"/etc/new\0", Make(Err(Errno::EACCES))),
    (2, OTHER, b"/init\0", Remove(Err(Errno::EACCES))),
    (2, SUPER, b"/new\0", Make(Ok(IN_ROOT))),
];

/// Whether the answer to a search is right, and no other reference is left than when nothing is marked.
fn search_holds(alloc: Global, image: &[u8], row: &Search) -> Result<bool, AllocError> {
    let (dir, user, name, ask) = *row;
    let Some(mut tree) = open_tree(alloc, image, dir, 0)? else {
        return Ok(false);
    };
    if !mark(&mut tree, dir) {
        return Ok(false);
    }
    let (space, at) = memory_with(name);
    let is_right = is_answered(&mut tree, dir, user, NameBytes::at(&space, at), ask);
    Ok(is_right && unmark(&mut tree, dir) && refers(&tree.nodes, dir, ask))
}

/// A mark that comes, or goes.
#[derive(Clone, Copy)]
enum Change {
    Comes(u16),
    Goes(u16),
}

use Change::{Comes, Goes};

/// Marks that come and go, and which there are then.
static CHANGES: [(Change, &'static [u16]); 11] = [
    (Comes(30), &[30]),
    (Comes(29), &[29, 30]),
    (Goes(30), &[29]),
    (Comes(3), &[3, 29]),
    (Comes(30), &[3, 29, 30]),
    (Goes(29), &[3, 30]),
    (Goes(30), &[3]),
    (Comes(128), &[3, 128]),
    (Goes(3), &[128]),
    (Comes(3), &[3, 128]),
    (Goes(128), &[3]),
];

/// Whether these inodes are marked, and no others.
fn are_marked(tree: &Tree, inodes: &[u16]) -> bool {
    for ino in 0..=65535u16 {
        if tree.marks.has(ino) != inodes.contains(&ino) {
            return false;
        }
    }
    true
}

fn changes(tree: &mut Tree, change: Change) -> bool
    requires few { (i : ℕ) → slice_index tree.old.nodes.references i ≤ 65530 }
    ensures few { (i : ℕ) → slice_index tree.new.nodes.references i ≤ 65530 }
{
    match change {
        Comes(ino) => mark(tree, ino),
        Goes(ino) => unmark(tree, ino),
    }
}

/// The first change after which others are marked, or something else is amiss.
fn first_change(alloc: Global) -> Result<Option<usize>, AllocError> {
    let Some(mut tree) = open_tree(alloc, &names_disk(&[]), 128, 3)? else {
        return Ok(Some(usize::MAX));
    };
    if !takes(&mut tree.nodes, 3) {
        return Ok(Some(usize::MAX));
    }
    for (k, (change, marked)) in CHANGES.iter().enumerate() {
        if !changes(&mut tree, *change) || !are_marked(&tree, marked) {
            return Ok(Some(k));
        }
    }
    Ok(None)
}

/// Gives the references to an inode back, of which there are two.
fn leaves(nodes: &mut Nodes, ino: u16) -> bool
    ensures few { ((i : ℕ) → slice_index nodes.old.references i ≤ 65530)
        → (i : ℕ) → slice_index nodes.new.references i ≤ 65530 }
{
    if nodes.refs(ino) != 2 {
        return false;
    }
    nodes.put(ino, 9);
    nodes.put(ino, 9);
    nodes.refs(ino) == 0
}

/// Marks inodes up to one, the last left out.
fn mark_all(tree: &mut Tree, from: u16, end: u16) -> bool
    requires few { (i : ℕ) → slice_index tree.old.nodes.references i ≤ 65530 }
    ensures few { (i : ℕ) → slice_index tree.new.nodes.references i ≤ 65530 }
{
    for ino in from..end {
        if !mark(tree, ino) {
            return false;
        }
    }
    true
}

/// Marks a hundred inodes, to which as many as can be are referred then, and one more in the place of a reference.
fn more_than_a_hundred(alloc: Global) -> Result<bool, AllocError> {
    let Some(mut tree) = open_tree(alloc, &names_disk(&[]), 3, 99)? else {
        return Ok(false);
    };
    if !mark(&mut tree, 3) || !mark_all(&mut tree, 29, 128) || !leaves(&mut tree.nodes, 29) {
        return Ok(false);
    }
    if !takes(&mut tree.nodes, 128) || !mark(&mut tree, 128) {
        return Ok(false);
    }
    for ino in 0..=65535u16 {
        if tree.marks.has(ino) != (ino == 3 || (29..129).contains(&ino)) {
            return Ok(false);
        }
    }
    Ok(answers(&tree, 128, SUPER, Write, BUSY))
}

#[test]
fn a_text_that_is_shared_is_written_by_nobody(rt: HostRuntime) {
    for (k, row) in ROWS.iter().enumerate() {
        assert!(rt; holds(rt.alloc(), row).expect(&rt, "memory"), "row {k}");
    }
}

#[test]
fn a_text_that_is_shared_keeps_its_file(rt: HostRuntime) {
    assert!(rt; stays(rt.alloc()).expect(&rt, "memory"));
}

#[test]
fn a_directory_that_is_marked_is_not_written(rt: HostRuntime) {
    let image = names_disk(&[]);
    for (k, row) in SEARCHES.iter().enumerate() {
        assert!(rt;
            search_holds(rt.alloc(), &image, row).expect(&rt, "memory"),
            "row {k}"
        );
    }
}

#[test]
fn marks_come_and_go(rt: HostRuntime) {
    assert_eq!(rt; first_change(rt.alloc()).expect(&rt, "memory"), None);
}

#[test]
fn more_than_a_hundred_inodes_are_marked(rt: HostRuntime) {
    assert!(rt; more_than_a_hundred(rt.alloc()).expect(&rt, "memory"));
}
