//! Path names by hand from docs/manual/names.md, which is namei and access of Lions' Commentary: what a name leads to
//! for a user, in the order of the tests, and what is referred to then.
ghost use Rattle.std.specs.Prelude.{◌≤◌, ℕ, slice_index};
ghost use Rattle.fs_tree.specs.Mounting.{AreMounts};

use crate::file_system::fixtures::put;
use crate::file_system::names_disk::{GROUP, OTHER, OWNER, SUPER, names_disk, open_tree};
use fs_nodes::Nodes;
use fs_tree::{Made, NameBytes, Tree, User};
use std::alloc::{AllocError, Global};
use v6_base::{Errno, Fixed, Space};

/// What is asked, and what the answer must be.
#[derive(Clone, Copy)]
pub enum Ask {
    Find(Result<u16, Errno>),
    Make(Result<Made, Errno>),
    Remove(Result<(u16, u32, u16), Errno>),
}

use Ask::{Find, Make, Remove};

/// The number of the directory where the name starts, the user, the name up to a byte that cannot be read, and what is
/// asked.
pub type Row = (u16, User, &'static [u8], Ask);

static NAMES: [Row; 90] = [
    // A name without a component is where it starts.
    (1, OTHER, b"/\0", Find(Ok(1))),
    (2, OTHER, b"/\0", Find(Ok(1))),
    (2, OTHER, b"///\0", Find(Ok(1))),
    (2, SUPER, b"///\0", Make(Err(Errno::ENOENT))),
    (2, SUPER, b"///\0", Remove(Err(Errno::ENOENT))),
    (2, SUPER, b"\0", Remove(Err(Errno::ENOENT))),
    (2, SUPER, b"///", Find(Err(Errno::EFAULT))),
    (2, SUPER, b"///", Make(Err(Errno::EFAULT))),
    (2, SUPER, b"///", Remove(Err(Errno::EFAULT))),
    (2, OTHER, b"\0", Find(Ok(2))),
    (1, SUPER, b"/\0", Make(Err(Errno::ENOENT))),
    (1, SUPER, b"\0", Make(Err(Errno::ENOENT))),
    (1, SUPER, b"//\0", Remove(Err(Errno::ENOENT))),
    (1, OTHER, b"/", Find(Err(Errno::EFAULT))),
    (1, OTHER, b"", Find(Err(Errno::EFAULT))),
    // Slashes in a row count once, and those at the end are passed over.
    (1, OTHER, b"//etc//own/\0", Find(Ok(8))),
    (2, OTHER, b"own\0", Find(Ok(8))),
    (2, OTHER, b"..//init\0", Find(Ok(3))),
    (2, OTHER, b"init\0", Find(Err(Errno::ENOENT))),
    (1, OTHER, b"/../../etc/../init\0", Find(Ok(3))),
    (1, OTHER, b"/init///\0", Find(Ok(3))),
    // It may start in what cannot be searched, or is no directory.
    (3, OTHER, b"\0", Find(Ok(3))),
    (3, OTHER, b"x\0", Find(Err(Errno::ENOTDIR))),
    (3, OTHER, b"/etc\0", Find(Ok(2))),
    (4, OTHER, b"\0", Find(Ok(4))),
    (4, OTHER, b"in\0", Find(Err(Errno::EACCES))),
    // An empty entry has no name, and of a component 14 bytes count.
    (1, OTHER, b"/init\0", Find(Ok(3))),
    (1, OTHER, b"/etc/gone\0", Find(Err(Errno::ENOENT))),
    (1, OTHER, b"/abcdefghijklmn\0", Find(Ok(5))),
    (1, OTHER, b"/abcdefghijklmno\0", Find(Ok(5))),
    (1, OTHER, b"/abcdefghijklmnopqrstuvwxyz/\0", Find(Ok(5))),
    (1, OTHER, b"/abcdefghijklm\0", Find(Err(Errno::ENOENT))),
    // All eight bits of a byte count: this is no `init`.
    (1, OTHER, b"/\xe9nit\0", Find(Err(Errno::ENOENT))),
    // The tests come in their order, and a byte that cannot be read is met last.
    (1, OTHER, b"/init/x\0", Find(Err(Errno::ENOTDIR))),
    (1, OTHER, b"/init/x", Find(Err(Errno::ENOTDIR))),
    (1, OTHER, b"/tty\0", Find(Ok(11))),
    (1, OTHER, b"/tty/x", Find(Err(Errno::ENOTDIR))),
    (1, OTHER, b"/init/x\0", Make(Err(Errno::ENOTDIR))),
    (1, OTHER, b"/init/x", Remove(Err(Errno::ENOTDIR))),
    (1, OTHER, b"/closed/x", Find(Err(Errno::EACCES))),
    (1, OTHER, b"/nothing/x", Find(Err(Errno::ENOENT))),
    (1, OTHER, b"/nothing", Find(Err(Errno::EFAULT))),
    (1, OTHER, b"/etc", Find(Err(Errno::EFAULT))),
    (1, OTHER, b"/etc//", Find(Err(Errno::EFAULT))),
    (1, OTHER, b"/etc/x", Find(Err(Errno::EFAULT))),
    (1, OTHER, b"/etc/own/x", Find(Err(Errno::EACCES))),
    // The first class that fits; user 0 needs a bit for execution.
    (1, OTHER, b"/closed/in\0", Find(Err(Errno::EACCES))),
    (1, OWNER, b"/closed/in\0", Find(Err(Errno::EACCES))),
    (1, SUPER, b"/closed/in\0", Find(Err(Errno::EACCES))),
    (1, SUPER, b"/closed\0", Find(Ok(4))),
    (1, GROUP, b"/large/first\0", Find(Ok(3))),
    (1, OWNER, b"/large/first\0", Find(Err(Errno::EACCES))),
    (1, OTHER, b"/large/first\0", Find(Err(Errno::EACCES))),
    (1, SUPER, b"/large/first\0", Find(Ok(3))),
    // Inodes that are free or that there are not, and entries that are not looked at.
    (1, SUPER, b"/free\0", Find(Err(Errno::ENOENT))),
    (1, SUPER, b"/far\0", Find(Err(Errno::ENOENT))),
    (1, SUPER, b"/far/x\0", Find(Err(Errno::ENOENT))),
    (1, SUPER, b"/past\0", Find(Err(Errno::ENOENT))),
    (1, SUPER, b"/etc/past\0", Find(Err(Errno::ENOENT))),
    (1, SUPER, b"/large/second\0", Find(Ok(5))),
    (1, SUPER, b"/large/third\0", Find(Err(Errno::ENOENT))),
    (1, OTHER, b"/holes/deep\0", Find(Ok(3))),
    // Room for an entry: the first that is empty, or the place just after those that were looked at.
    (
        1,
        SUPER,
        b"/new\0",
        Make(Ok(Made::Room {
            dir: 1,
            offset: 48,
            name: *b"new\0\0\0\0\0\0\0\0\0\0\0",
        })),
    ),
    (
        1,
        OWNER,
        b"/etc/new//\0",
        Make(Ok(Made::Room {
            dir: 2,
            offset: 32,
            name: *b"new\0\0\0\0\0\0\0\0\0\0\0",
        })),
    ),
    (1, OTHER, b"/etc/new\0", Make(Err(Errno::EACCES))),
    (1, GROUP, b"/etc/new\0", Make(Err(Errno::EACCES))),
    (1, OWNER, b"/etc/new", Make(Err(Errno::EFAULT))),
    (
        1,
        OWNER,
        b"/etc/abcdefghijklmnop\0",
        Make(Ok(Made::Room {
            dir: 2,
            offset: 32,
            name: *b"abcdefghijklmn",
        })),
    ),
    (
        2,
        OWNER,
        b"own/new\0",
        Make(Ok(Made::Room {
            dir: 8,
            offset: 32,
            name: *b"new\0\0\0\0\0\0\0\0\0\0\0",
        })),
    ),
    (2, OTHER, b"own/new\0", Make(Err(Errno::EACCES))),
    (
        1,
        OWNER,
        b"/holes/new\0",
        Make(Ok(Made::Room {
            dir: 6,
            offset: 0,
            name: *b"new\0\0\0\0\0\0\0\0\0\0\0",
        })),
    ),
    (
        1,
        SUPER,
        b"/large/new\0",
        Make(Ok(Made::Room {
            dir: 7,
            offset: 32,
            name: *b"new\0\0\0\0\0\0\0\0\0\0\0",
        })),
    ),
    (
        1,
        SUPER,
        b"/sized/new\0",
        Make(Ok(Made::Room {
            dir: 9,
            offset: 32,
            name: *b"new\0\0\0\0\0\0\0\0\0\0\0",
        })),
    ),
    (
        1,
        OTHER,
        b"/loose/new\0",
        Make(Ok(Made::Room {
            dir: 10,
            offset: 16,
            name: *b"new\0\0\0\0\0\0\0\0\0\0\0",
        })),
    ),
    (1, OTHER, b"/init\0", Make(Ok(Made::Found(3)))),
    (1, OTHER, b"/free\0", Make(Err(Errno::ENOENT))),
    (1, SUPER, b"/nothing/new\0", Make(Err(Errno::ENOENT))),
    // An entry that goes: the directory is tested before the inode.
    (1, SUPER, b"/init\0", Remove(Ok((1, 64, 3)))),
    (1, OTHER, b"/init\0", Remove(Err(Errno::EACCES))),
    (1, OTHER, b"/free\0", Remove(Err(Errno::EACCES))),
    (1, SUPER, b"/free\0", Remove(Err(Errno::ENOENT))),
    (1, OTHER, b"/far\0", Remove(Err(Errno::EACCES))),
    (1, SUPER, b"/far\0", Remove(Err(Errno::ENOENT))),
    (1, OTHER, b"/nothing\0", Remove(Err(Errno::ENOENT))),
    (1, OWNER, b"/etc/own\0", Remove(Ok((2, 48, 8)))),
    (1, OWNER, b"/etc/own/.\0", Remove(Ok((8, 0, 8)))),
    (1, OWNER, b"/etc/own/free\0", Remove(Err(Errno::ENOENT))),
    (1, OTHER, b"/loose/x\0", Remove(Ok((10, 0, 3)))),
    (1, OWNER, b"/sized/first\0", Remove(Err(Errno::EACCES))),
    (1, SUPER, b"/etc/gone\0", Remove(Err(Errno::ENOENT))),
];

/// Whether an answer is the one that is wanted.
pub fn answers<S: Space>(
    tree: &mut Tree,
    dir: u16,
    user: User,
    name: NameBytes<'_, S>,
    ask: Ask,
) -> bool
    requires few { (i : ℕ) → slice_index tree.old.nodes.references i ≤ 65530 }
    requires mounts { AreMounts tree.old.mounts tree.old.nodes.store }
{
    if tree.nodes.refs(dir) == 0 {
        return false;
    }
    match ask {
        Find(answer) => tree.find(dir, user, name) == answer,
        Make(answer) => tree.find_to_make(dir, user, name) == answer,
        Remove(answer) => tree.find_to_remove(dir, user, name) == answer,
    }
}

/// How often an answer names an inode.
fn named(ask: Ask, ino: u16) -> u16 {
    match ask {
        Find(Ok(found)) | Make(Ok(Made::Found(found))) if found == ino => 1,
        Make(Ok(Made::Room { dir, .. })) if dir == ino => 1,
        Remove(Ok((dir, _, found))) if dir == ino && found == ino => 2,
        Remove(Ok((dir, _, found))) if dir == ino || found == ino => 1,
        _ => 0,
    }
}

/// Whether the directory of the start is referred to, and what the answer names once more, and of the first inodes
/// nothing else.
pub fn refers(nodes: &Nodes, start: u16, ask: Ask) -> bool {
    for ino in 1..29 {
        let first: u16 = if ino == start { 1 } else { 0 };
        if nodes.refs(ino) != first.wrapping_add(named(ask, ino)) {
            return false;
        }
    }
    true
}

/// A memory of 64 bytes with a name at its end.
pub fn memory_with(name: &[u8]) -> (Fixed, u16) {
    let at = 64_u16.wrapping_sub((name.len() % 65) as u16);
    let mut bytes = [0; 64];
    put(&mut bytes, &[(usize::from(at), name)]);
    (Fixed::new(bytes), at)
}

/// Whether a row holds where so many other inodes are referred to.
pub fn holds(alloc: Global, image: &[u8], others: u16, row: &Row) -> Result<bool, AllocError> {
    let (dir, user, name, ask) = *row;
    let Some(mut tree) = open_tree(alloc, image, dir, others)? else {
        return Ok(false);
    };
    let (space, at) = memory_with(name);
    let right = answers(&mut tree, dir, user, NameBytes::at(&space, at), ask);
    Ok(right && refers(&tree.nodes, dir, ask))
}

#[test]
fn names_lead_to_inodes(rt: HostRuntime) {
    let image = names_disk(&[]);
    for (k, row) in NAMES.iter().enumerate() {
        assert!(rt;
            holds(rt.alloc(), &image, 0, row).expect(&rt, "memory"),
            "row {k}"
        );
    }
}

/// Names on a disk whose root has no empty entry: in the place of that one there is `f`, NUL, `x`. All fourteen bytes of an
/// entry count, those after a NUL too.
static NAMES_BESIDE_A_NUL: [Row; 3] = [
    (1, SUPER, b"/f\0", Find(Err(Errno::ENOENT))),
    (1, SUPER, b"/f\0", Remove(Err(Errno::ENOENT))),
    (
        1,
        SUPER,
        b"/f\0",
        Make(Ok(Made::Room {
            dir: 1,
            offset: 224,
            name: *b"f\0\0\0\0\0\0\0\0\0\0\0\0\0",
        })),
    ),
];

#[test]
fn all_bytes_of_an_entry_count(rt: HostRuntime) {
    let image = names_disk(&[(5168, 3), (5170, 0x66), (5172, 0x78)]);
    for (k, row) in NAMES_BESIDE_A_NUL.iter().enumerate() {
        assert!(rt;
            holds(rt.alloc(), &image, 0, row).expect(&rt, "memory"),
            "row {k}"
        );
    }
}
