//! The search for a name: namei in Lions' Commentary, `nami.c`.
ghost use Rattle.std.specs.Prelude.{◌≡◌, ◌+◌, ◌||◌, ◌<◌, ℕ, List, ◌∷◌, true, not, length};
ghost use Rattle.std.specs.Prelude.{IsSome, IfOk, slice_index};
ghost use Rattle.fs_nodes.specs.Keys.{node_numbered};
ghost use Rattle.fs_nodes.specs.FileSystem.{SameFiles};
ghost use Rattle.fs_tree.specs.Name.{components, is_whole, begins, start_of};
ghost use Rattle.fs_tree.specs.Path.{used_number, used_key, entry_number, reached, in_directory, is_last, way, found, to_make, to_remove};

use crate::access::{grant, may};
use crate::directory::{Looked, look_up};
use crate::made::Made;
use crate::marks::Marks;
use crate::name::NameBytes;
use crate::user::{User, Want};
use fs_codec::is_directory;
use fs_nodes::Nodes;
use mount_tab::Mounts;
use v6_base::{Errno, Space};

/// The search of a directory for a component of a name.
#[derive(Clone, Copy)]
pub(crate) struct Last {
    pub(crate) dir: u16,
    pub(crate) name: [u8; 14],
    /// Whether the user may write the directory, by the bits of its mode.
    pub(crate) may_write: bool,
    pub(crate) looked: Looked,
}

/// Where a name leads.
#[derive(Clone, Copy)]
pub(crate) enum Way {
    /// It has no component: to where it starts.
    Start(u16),
    /// To the search for its last component.
    End(Last),
}

/// A number that an inode is used of.
fn used_number(nodes: &mut Nodes, ino: u16) -> Result<u16, Errno>
    ensures result { result ≡ used_number nodes.old.store ino }
    ensures same { SameFiles nodes.old nodes.new }
{
    match nodes.peek(ino) {
        Some(_) => Ok(ino),
        None => Err(Errno::ENOENT),
    }
}

/// The key of the inode of a number on a disk, where there is such an inode and it is used.
fn used_key(nodes: &mut Nodes, mounts: &Mounts, dev: u8, ino: u16) -> Result<u16, Errno>
    requires { dev < 2 }
    ensures result { result ≡ used_key nodes.old.store mounts.now dev ino }
    ensures same { SameFiles nodes.old nodes.new }
{
    if !mounts.in_range(dev, ino) {
        return Err(Errno::ENOENT);
    }
    used_number(nodes, mounts.key(dev, ino))
}

/// The inode that a search of a directory found.
fn entry_number(nodes: &mut Nodes, mounts: &Mounts, dir: u16, looked: Looked) -> Result<u16, Errno>
    ensures result { result ≡ entry_number nodes.old.store mounts.now dir looked }
    ensures same { SameFiles nodes.old nodes.new }
{
    match looked {
        Looked::Entry(_, ino) => used_key(nodes, mounts, mounts.split(dir).0, ino),
        Looked::Room(_) => Err(Errno::ENOENT),
    }
}

/// The inode that is reached there: where that one is covered, the root of the second disk.
fn reached(nodes: &mut Nodes, mounts: &Mounts, dir: u16, looked: Looked) -> Result<u16, Errno>
    ensures result { result ≡ reached nodes.old.store mounts.now dir looked }
    ensures same { SameFiles nodes.old nodes.new }
{
    let ino = entry_number(nodes, mounts, dir, looked)?;
    Ok(mounts.cross(ino))
}

/// Looks for the next component of a name in a directory.
fn look_in<S: Space>(
    nodes: &mut Nodes,
    dir: u16,
    user: User,
    name: &mut NameBytes<'_, S>,
) -> Result<Last, Errno>
    requires begins { begins name.old ≡ true }
    ensures result { (component : List ℕ) (later : List (List ℕ)) → components name.old ≡ component ∷ later
        → result ≡ in_directory nodes.old.store user dir component (not (is_last later) || is_whole name.old) }
    ensures rest { IfOk result (λ last. components name.old ≡ last.name ∷ components name.new) }
    ensures whole { IfOk result (λ _. is_whole name.new ≡ is_whole name.old) }
    ensures read { IfOk result (λ _. is_last (components name.new) ≡ not (begins name.new)) }
    ensures shorter { IfOk result (λ _. length name.new < length name.old) }
    ensures same { SameFiles nodes.old nodes.new }
{
    let Some(node) = nodes.peek(dir) else {
        return Err(Errno::ENOENT);
    };
    if !is_directory(node.mode) {
        return Err(Errno::ENOTDIR);
    }
    if !may(&node, user, Want::Execute) {
        return Err(Errno::EACCES);
    }
    let component = name.component();
    if name.peek().is_none() {
        return Err(Errno::EFAULT);
    }
    Ok(Last {
        dir,
        name: component,
        may_write: may(&node, user, Want::Write),
        looked: look_up(nodes, dir, node.size, &component),
    })
}

/// Sees that the directory is used where a name starts.
pub(crate) fn see_start(nodes: &Nodes, dir: u16)
    requires { 0 < slice_index nodes.now.references dir }
    ensures start { (bytes : List ℕ) → IsSome (node_numbered nodes.now.store (start_of dir bytes)) }
    ensures second { IsSome nodes.now.store.second → IsSome (node_numbered nodes.now.store (nodes.now.store.root.count + 1)) }
{
    nodes.see();
}

/// Looks for a name, from a directory on.
pub(crate) fn walk<S: Space>(
    nodes: &mut Nodes,
    mounts: &Mounts,
    dir: u16,
    user: User,
    name: &mut NameBytes<'_, S>,
) -> Result<Way, Errno>
    ensures result { result ≡ way nodes.old.store mounts.now user dir name.old }
    ensures same { SameFiles nodes.old nodes.new }
{
    let mut at = mounts.cross(name.start(dir));
    name.pass_slashes();
    if !name.begins() {
        return match name.peek() {
            Some(_) => Ok(Way::Start(at)),
            None => Err(Errno::EFAULT),
        };
    }
    loop {
        let last = look_in(nodes, at, user, name)?;
        if !name.begins() {
            return Ok(Way::End(last));
        }
        at = reached(nodes, mounts, last.dir, last.looked)?;
    }
}

/// The inode that a name leads to.
pub(crate) fn found(nodes: &mut Nodes, mounts: &Mounts, way: Way) -> Result<u16, Errno>
    ensures result { result ≡ found nodes.old.store mounts.now way }
    ensures same { SameFiles nodes.old nodes.new }
{
    match way {
        Way::Start(ino) => Ok(ino),
        Way::End(last) => reached(nodes, mounts, last.dir, last.looked),
    }
}

/// The inode that a name leads to, or the room for an entry of this name.
pub(crate) fn to_make(
    nodes: &mut Nodes,
    mounts: &Mounts,
    marks: &Marks,
    way: Way,
) -> Result<Made, Errno>
    ensures result { result ≡ to_make nodes.old.store mounts.now marks.now way }
    ensures same { SameFiles nodes.old nodes.new }
{
    let Way::End(last) = way else {
        return Err(Errno::ENOENT);
    };
    match last.looked {
        Looked::Entry(_, _) => Ok(Made::Found(reached(nodes, mounts, last.dir, last.looked)?)),
        Looked::Room(place) => {
            grant(marks, last.dir, Want::Write, last.may_write)?;
            Ok(Made::Room {
                dir: last.dir,
                offset: 16 * place as u32,
                name: last.name,
            })
        }
    }
}

/// The entry that a name leads to: its directory, its first byte there, and its inode.
pub(crate) fn to_remove(
    nodes: &mut Nodes,
    mounts: &Mounts,
    marks: &Marks,
    way: Way,
) -> Result<(u16, u32, u16), Errno>
    ensures result { result ≡ to_remove nodes.old.store mounts.now marks.now way }
    ensures same { SameFiles nodes.old nodes.new }
{
    let Way::End(last) = way else {
        return Err(Errno::ENOENT);
    };
    match last.looked {
        Looked::Entry(place, _) => {
            grant(marks, last.dir, Want::Write, last.may_write)?;
            let ino = entry_number(nodes, mounts, last.dir, last.looked)?;
            Ok((last.dir, 16 * place as u32, ino))
        }
        Looked::Room(_) => Err(Errno::ENOENT),
    }
}
