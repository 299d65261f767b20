//! Files whose text is shared: `access` of Lions' Commentary, `fio.c`, and open(II) and creat(II).
ghost use Rattle.std.specs.Prelude.{◌≡◌, ◌+◌, ◌≤◌, ◌==◌, ℕ, true, if◌then◌else◌, slice_index};
ghost use Rattle.fs_nodes.specs.Keys.{counts};

use crate::system_calls::calls::Call::{Chmod, Close, Creat, Link, Mknod, Open, Read, Unlink};
use crate::system_calls::calls::Told::{Done, Fails, Gives};
use crate::system_calls::looks::Look::{File, Inode, Kind, Refs};
use crate::system_calls::scenes::Step::{Does, Has, User};
use crate::system_calls::scenes::{Step, first_of};
use crate::system_calls::world::{World, begin};
use fs_nodes::Nodes;
use fs_tree::Tree;
use std::alloc::{AllocError, Global};
use std::process::Abort;
use v6_base::Errno::{EACCES, EISDIR, ENOENT, ETXTBSY};

/// What happens while the text of `/f`, which is inode 3 of user 1, is shared. Two refer to it: the text, and the call that
/// has found it.
const SHARED: [Step; 28] = [
    Has(Refs(3, 2)),
    // User 0 may not write it either.
    Does(Open(b"/f\0", 1), Fails(ETXTBSY)),
    Does(Open(b"/f\0", 2), Fails(ETXTBSY)),
    Does(Creat(b"/f\0", 0o777), Fails(ETXTBSY)),
    Has(Refs(3, 2)),
    Has(Inode(3, 0o100644, [2, 1, 2], 600)),
    // To be read it is opened.
    Does(Open(b"/f\0", 0), Gives(0)),
    Has(Kind(0, true, false)),
    Does(Read(0, 0, 9), Gives(9)),
    Has(Refs(3, 3)),
    Does(Close(0), Done),
    // What the user may do comes after: the others may only read, and here nobody may.
    User(9, 9),
    Does(Open(b"/f\0", 1), Fails(ETXTBSY)),
    Does(Creat(b"/f\0", 0), Fails(ETXTBSY)),
    Does(Open(b"/f\0", 0), Gives(0)),
    User(0, 0),
    Does(Chmod(b"/f\0", 0), Done),
    User(9, 9),
    Does(Open(b"/f\0", 0), Fails(EACCES)),
    Does(Open(b"/f\0", 2), Fails(ETXTBSY)),
    // Another name of it is no other file, and of another file nothing is new.
    User(0, 0),
    Does(Link(b"/f\0", b"/g\0"), Done),
    Does(Creat(b"/g\0", 0), Fails(ETXTBSY)),
    Does(Creat(b"/big\0", 0), Gives(1)),
    // A new file of the old name is another inode.
    Does(Unlink(b"/f\0"), Done),
    Does(Creat(b"/f\0", 0o600), Gives(2)),
    Has(Refs(3, 3)),
    Has(File(2, 16, 0, 1)),
];

/// And what happens when it is shared no longer, and one refers to it.
const UNSHARED: [Step; 8] = [
    Has(Refs(3, 1)),
    Does(Open(b"/f\0", 1), Gives(0)),
    User(9, 9),
    Does(Open(b"/f\0", 1), Fails(EACCES)),
    Does(Creat(b"/f\0", 0), Fails(EACCES)),
    User(1, 9),
    Does(Creat(b"/f\0", 0), Gives(1)),
    Has(Inode(3, 0o100644, [2, 1, 2], 0)),
];

/// What happens while `/d` is marked, which is inode 2 of user 1: a directory with the entry of `/f` at byte 48, and an empty one
/// before it.
const MARKED: [Step; 28] = [
    Has(Refs(2, 2)),
    // User 0 enters nothing in it, and removes nothing.
    Does(Creat(b"/d/new\0", 0o777), Fails(ETXTBSY)),
    Does(Mknod(b"/d/new\0", 0o140777, 0), Fails(ETXTBSY)),
    Does(Link(b"/f\0", b"/d/new\0"), Fails(ETXTBSY)),
    Does(Unlink(b"/d/in\0"), Fails(ETXTBSY)),
    Does(Unlink(b"/d/gone\0"), Fails(ENOENT)),
    Has(Refs(2, 2)),
    Has(Refs(3, 0)),
    Has(Inode(2, 0o140755, [2, 1, 2], 64)),
    Has(Inode(3, 0o100644, [2, 1, 2], 600)),
    // What the user may do comes after.
    User(9, 9),
    Does(Creat(b"/d/new\0", 0o777), Fails(ETXTBSY)),
    Does(Unlink(b"/d/in\0"), Fails(ETXTBSY)),
    User(1, 9),
    Does(Link(b"/f\0", b"/d/new\0"), Fails(ETXTBSY)),
    // It is searched and read, and a file that it has is written.
    Does(Open(b"/d\0", 0), Gives(0)),
    Does(Read(0, 0, 99), Gives(64)),
    Does(Creat(b"/d/in\0", 0), Gives(1)),
    Has(Inode(3, 0o100644, [2, 1, 2], 0)),
    // As a file it is written by nobody; to open it, what comes last counts.
    User(0, 0),
    Does(Creat(b"/d\0", 0), Fails(ETXTBSY)),
    Does(Open(b"/d\0", 1), Fails(EISDIR)),
    // Another directory is written, and the entry of this one in another goes.
    Does(Creat(b"/h/new\0", 0o600), Gives(2)),
    Does(Unlink(b"/h/new\0"), Done),
    Does(Link(b"/d\0", b"/h/d\0"), Done),
    Does(Unlink(b"/d\0"), Done),
    Does(Creat(b"/h/d/new\0", 0o600), Fails(ETXTBSY)),
    Has(Refs(2, 3)),
];

/// And what happens when it is no longer, and one refers to it.
const UNMARKED: [Step; 7] = [
    Has(Refs(2, 1)),
    User(9, 9),
    Does(Creat(b"/d/new\0", 0o777), Fails(EACCES)),
    User(1, 9),
    Does(Creat(b"/d/new\0", 0o777), Gives(0)),
    Does(Unlink(b"/d/in\0"), Done),
    Has(Inode(3, 0o100644, [1, 1, 2], 600)),
];

/// Refers to an inode.
fn refer(nodes: &mut Nodes, ino: u16) -> bool
    requires few { (i : ℕ) → slice_index nodes.old.references i ≤ 2 }
    ensures references { result ≡ true → (i : ℕ) → slice_index nodes.new.references i
        ≡ slice_index nodes.old.references i + (if ino == i then 1 else 0) }
    ensures store { nodes.new.store ≡ nodes.old.store }
{
    if nodes.peek(ino).is_none() || nodes.refs(ino) != 0 {
        return false;
    }
    nodes.see();
    match nodes.take(ino) {
        Ok(()) => true,
        Err(_) => false,
    }
}

/// Marks an inode.
fn mark(tree: &mut Tree, ino: u16) -> bool
    requires few { (i : ℕ) → slice_index tree.old.nodes.references i ≤ 65530 }
    ensures references { result ≡ true → (i : ℕ) → slice_index tree.new.nodes.references i
        ≡ slice_index tree.old.nodes.references i + (if ino == i then 1 else 0) }
    ensures counts { counts tree.new.nodes.store ≡ counts tree.old.nodes.store }
    ensures mounts { tree.new.mounts ≡ tree.old.mounts }
{
    if tree.nodes.refs(ino) == 0 || tree.marks.has(ino) {
        return false;
    }
    tree.mark_text(ino);
    true
}

/// Refers to an inode, and marks it.
fn share(tree: &mut Tree, ino: u16) -> bool
    requires few { (i : ℕ) → slice_index tree.old.nodes.references i ≤ 2 }
    ensures references { result ≡ true → (i : ℕ) → slice_index tree.new.nodes.references i
        ≡ slice_index tree.old.nodes.references i + (if ino == i then 2 else 0) }
    ensures counts { counts tree.new.nodes.store ≡ counts tree.old.nodes.store }
    ensures mounts { tree.new.mounts ≡ tree.old.mounts }
{
    if !refer(&mut tree.nodes, ino) {
        return false;
    }
    mark(tree, ino)
}

/// Takes the mark of an inode away.
fn unshare(tree: &mut Tree, ino: u16) -> bool
    ensures references { result ≡ true → (i : ℕ) → slice_index tree.new.nodes.references i + (if ino == i then 1 else 0)
        ≡ slice_index tree.old.nodes.references i }
    ensures counts { counts tree.new.nodes.store ≡ counts tree.old.nodes.store }
    ensures mounts { tree.new.mounts ≡ tree.old.mounts }
{
    if tree.nodes.refs(ino) == 0 || !tree.marks.has(ino) {
        return false;
    }
    tree.unmark_text(ino, 9);
    true
}

/// Refers to an inode, marks it, and takes the mark away.
fn share_once(tree: &mut Tree, ino: u16) -> bool
    requires few { (i : ℕ) → slice_index tree.old.nodes.references i ≤ 2 }
    ensures references { result ≡ true → (i : ℕ) → slice_index tree.new.nodes.references i
        ≡ slice_index tree.old.nodes.references i + (if ino == i then 1 else 0) }
    ensures counts { counts tree.new.nodes.store ≡ counts tree.old.nodes.store }
    ensures mounts { tree.new.mounts ≡ tree.old.mounts }
{
    if !share(tree, ino) {
        return false;
    }
    unshare(tree, ino)
}

/// The first step that does not hold while an inode is marked.
fn failure_while(alloc: Global, ino: u16, steps: &[Step]) -> Result<Option<usize>, AllocError> {
    let Some(mut w) = begin(alloc, &[], 0)? else {
        return Ok(Some(usize::MAX));
    };
    if !share(&mut w.files.tree, ino) {
        return Ok(Some(usize::MAX));
    }
    Ok(first_of(&mut w, steps))
}

/// The first step that does not hold when it is marked no longer.
fn failure_after(alloc: Global, ino: u16, steps: &[Step]) -> Result<Option<usize>, AllocError> {
    let Some(mut w) = begin(alloc, &[], 0)? else {
        return Ok(Some(usize::MAX));
    };
    if !share_once(&mut w.files.tree, ino) {
        return Ok(Some(usize::MAX));
    }
    Ok(first_of(&mut w, steps))
}

#[test]
fn a_text_that_is_shared_is_not_written(rt: HostRuntime) {
    assert_eq!(rt;
        failure_while(rt.alloc(), 3, &SHARED).expect(&rt, "memory"),
        None
    );
}

#[test]
fn a_text_that_was_shared_is_written(rt: HostRuntime) {
    assert_eq!(rt;
        failure_after(rt.alloc(), 3, &UNSHARED).expect(&rt, "memory"),
        None
    );
}

#[test]
fn a_directory_that_is_marked_gets_and_loses_no_entry(rt: HostRuntime) {
    assert_eq!(rt;
        failure_while(rt.alloc(), 2, &MARKED).expect(&rt, "memory"),
        None
    );
}

#[test]
fn a_directory_that_was_marked_gets_and_loses_entries(rt: HostRuntime) {
    assert_eq!(rt;
        failure_after(rt.alloc(), 2, &UNMARKED).expect(&rt, "memory"),
        None
    );
}
