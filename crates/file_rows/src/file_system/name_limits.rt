//! Names where something runs out, by hand from docs/manual/names.md: references, entries of a directory, bytes of a
//! name.
use crate::file_system::entries::enter;
use crate::file_system::fixtures::{TWENTY_BLOCKS, put_words};
use crate::file_system::names::Ask::{Find, Make, Remove};
use crate::file_system::names::{Ask, Row, answers, holds, memory_with, refers};
use crate::file_system::names_disk::{OTHER, OWNER, SUPER, inode_at, names_disk, open_tree};
use fs_tree::{Made, NameBytes};
use std::alloc::{AllocError, Global};
use v6_base::{Errno, Space, Whole};

const NEW: [u8; 14] = *b"new\0\0\0\0\0\0\0\0\0\0\0";

/// How many other inodes are referred to, and what is asked then. The root, where each name starts, is referred to too.
static FULL: [(u16, Row); 20] = [
    // A hundred are referred to: no other can be, but those that are referred to already can.
    (99, (1, OTHER, b"/\0", Find(Ok(1)))),
    (99, (1, OTHER, b"/etc/..\0", Find(Ok(1)))),
    (99, (1, OTHER, b"/etc\0", Find(Err(Errno::ENFILE)))),
    (98, (1, OTHER, b"/etc\0", Find(Ok(2)))),
    // Other errors come first.
    (99, (1, OTHER, b"/nothing\0", Find(Err(Errno::ENOENT)))),
    (99, (1, OTHER, b"/init/x\0", Find(Err(Errno::ENOTDIR)))),
    (99, (1, OTHER, b"/etc/new\0", Make(Err(Errno::EACCES)))),
    (99, (1, OTHER, b"/init\0", Remove(Err(Errno::EACCES)))),
    // The inode, or the directory that has room.
    (99, (1, OTHER, b"/init\0", Make(Err(Errno::ENFILE)))),
    (98, (1, OTHER, b"/init\0", Make(Ok(Made::Found(3))))),
    (99, (1, OWNER, b"/etc/new\0", Make(Err(Errno::ENFILE)))),
    (
        98,
        (
            1,
            OWNER,
            b"/etc/new\0",
            Make(Ok(Made::Room {
                dir: 2,
                offset: 32,
                name: NEW,
            })),
        ),
    ),
    (
        99,
        (
            1,
            SUPER,
            b"/new\0",
            Make(Ok(Made::Room {
                dir: 1,
                offset: 48,
                name: NEW,
            })),
        ),
    ),
    // The directory, which is referred to already, and the inode, which cannot be.
    (99, (1, SUPER, b"/init\0", Remove(Err(Errno::ENFILE)))),
    (98, (1, SUPER, b"/init\0", Remove(Ok((1, 64, 3))))),
    // No place for the directory; one for the directory and none for the inode; two.
    (99, (1, OWNER, b"/etc/own\0", Remove(Err(Errno::ENFILE)))),
    (98, (1, OWNER, b"/etc/own\0", Remove(Err(Errno::ENFILE)))),
    (97, (1, OWNER, b"/etc/own\0", Remove(Ok((2, 48, 8))))),
    // The directory is the inode, and takes one place.
    (99, (1, OWNER, b"/etc/own/.\0", Remove(Err(Errno::ENFILE)))),
    (98, (1, OWNER, b"/etc/own/.\0", Remove(Ok((8, 0, 8))))),
];

#[test]
fn a_hundred_inodes_are_referred_to(rt: HostRuntime) {
    let image = names_disk(&[]);
    for (k, (others, row)) in FULL.iter().enumerate() {
        assert!(rt;
            holds(rt.alloc(), &image, *others, row).expect(&rt, "memory"),
            "row {k}"
        );
    }
}

/// How many others are referred to where the entry `x` of inode 10, which has no link, is to go; what is answered; and
/// whether inode 10 is still used. A directory without a link goes with the one reference to it.
static LOOSE: [(u16, Ask, bool); 3] = [
    (99, Remove(Err(Errno::ENFILE)), true),
    (98, Remove(Err(Errno::ENFILE)), false),
    (97, Remove(Ok((10, 0, 3))), true),
];

fn loose_holds(alloc: Global, image: &[u8], row: &(u16, Ask, bool)) -> Result<bool, AllocError> {
    let (others, ask, kept) = *row;
    let Some(mut tree) = open_tree(alloc, image, 1, others)? else {
        return Ok(false);
    };
    let (space, at) = memory_with(b"/loose/x\0");
    let right = answers(&mut tree, 1, OTHER, NameBytes::at(&space, at), ask);
    Ok(right && refers(&tree.nodes, 1, ask) && tree.nodes.peek(10).is_some() == kept)
}

#[test]
fn a_directory_without_a_link_goes(rt: HostRuntime) {
    let image = names_disk(&[]);
    for (k, row) in LOOSE.iter().enumerate() {
        assert!(rt;
            loose_holds(rt.alloc(), &image, row).expect(&rt, "memory"),
            "row {k}"
        );
    }
}

/// How many bytes inode 9 has, of which the first entries are `first` and `second`, and the others empty; what these
/// names lead to; and where there is room for another. Of a size the part below 65,536 counts, in whole entries.
type Size = (u32, Result<u16, Errno>, Result<u16, Errno>, u32);

static SIZES: [Size; 16] = [
    (0, Err(Errno::ENOENT), Err(Errno::ENOENT), 0),
    (15, Err(Errno::ENOENT), Err(Errno::ENOENT), 0),
    (16, Ok(3), Err(Errno::ENOENT), 16),
    (31, Ok(3), Err(Errno::ENOENT), 16),
    (32, Ok(3), Ok(5), 32),
    (47, Ok(3), Ok(5), 32),
    (48, Ok(3), Ok(5), 32),
    (512, Ok(3), Ok(5), 32),
    (65_520, Ok(3), Ok(5), 32),
    (65_535, Ok(3), Ok(5), 32),
    (65_536, Err(Errno::ENOENT), Err(Errno::ENOENT), 0),
    (65_551, Err(Errno::ENOENT), Err(Errno::ENOENT), 0),
    (65_552, Ok(3), Err(Errno::ENOENT), 16),
    (131_099, Ok(3), Err(Errno::ENOENT), 16),
    (16_711_680, Err(Errno::ENOENT), Err(Errno::ENOENT), 0),
    (16_777_215, Ok(3), Ok(5), 32),
];

/// The disk where inode 9 has so many bytes.
fn sized(size: u32) -> [u8; TWENTY_BLOCKS] {
    let high = (size / 65_536 % 256) as u16;
    let low = (size % 65_536) as u16;
    names_disk(&[
        (inode_at(9).wrapping_add(4), high * 256),
        (inode_at(9).wrapping_add(6), low),
    ])
}

fn size_holds(alloc: Global, row: &Size) -> Result<bool, AllocError> {
    let (size, first, second, offset) = *row;
    let image = sized(size);
    let room = Made::Room {
        dir: 9,
        offset,
        name: NEW,
    };
    Ok(
        holds(
            alloc,
            &image,
            0,
            &(1, SUPER, b"/sized/first\0", Find(first)),
        )? && holds(
            alloc,
            &image,
            0,
            &(1, SUPER, b"/sized/second\0", Find(second)),
        )? && holds(
            alloc,
            &image,
            0,
            &(1, SUPER, b"/sized/new\0", Make(Ok(room))),
        )?,
    )
}

#[test]
fn a_search_looks_at_whole_entries_of_the_size(rt: HostRuntime) {
    for (k, row) in SIZES.iter().enumerate() {
        assert!(rt;
            size_holds(rt.alloc(), row).expect(&rt, "memory"),
            "row {k}"
        );
    }
}

/// How many bytes the root has where each of its 4,095 places has an entry, where there is room for another, and what
/// comes of entering it there.
type FullRoot = (u16, u32, Result<(), Errno>);

static FULL_ROOTS: [FullRoot; 6] = [
    (65_488, 65_488, Ok(())),
    (65_504, 65_504, Ok(())),
    (65_519, 65_504, Ok(())),
    (65_520, 65_520, Err(Errno::EFBIG)),
    (65_535, 65_520, Err(Errno::EFBIG)),
    (16, 16, Ok(())),
];

/// A disk of 160 blocks. The root has so many bytes, indirect block 3, and blocks 4 to 131. In each of its places there
/// is an entry of inode 1.
fn full_root(alloc: Global, size: u16) -> Result<Vec<u8>, AllocError> {
    let mut image = vec![in alloc; 0; 81_920]?;
    put_words(
        &mut image,
        &[(512, 1), (514, 160), (1024, 0o150755), (1026, 2)],
    );
    put_words(&mut image, &[(1030, size), (1032, 3)]);
    for k in 0..128_u16 {
        put_words(&mut image, &[(1536 + 2 * usize::from(k), 4 + k)]);
    }
    for k in 0..4095_usize {
        put_words(&mut image, &[(2048 + 16 * k, 1), (2050 + 16 * k, 0x6f6f)]);
    }
    Ok(image)
}

fn full_root_holds(alloc: Global, row: &FullRoot) -> Result<bool, AllocError> {
    let (size, offset, answer) = *row;
    let Some(mut tree) = open_tree(alloc, &full_root(alloc, size)?, 1, 0)? else {
        return Ok(false);
    };
    let (space, at) = memory_with(b"/new\0");
    let room = Made::Room {
        dir: 1,
        offset,
        name: NEW,
    };
    let found = answers(
        &mut tree,
        1,
        SUPER,
        NameBytes::at(&space, at),
        Make(Ok(room)),
    );
    Ok(found && enter(&mut tree, 1, offset, 1) == answer)
}

#[test]
fn a_directory_has_4095_entries_at_most(rt: HostRuntime) {
    for (k, row) in FULL_ROOTS.iter().enumerate() {
        assert!(rt;
            full_root_holds(rt.alloc(), row).expect(&rt, "memory"),
            "row {k}"
        );
    }
}

/// A name that begins at an address of a memory of 65,536 bytes, which goes round. After its front comes the same byte
/// over and over, and the last byte is the one before that address. The byte after that one cannot be read.
type Long = (u16, &'static [u8], u8, u8, Ask);

static LONG: [Long; 14] = [
    // It goes round.
    (65_533, b"/etc/own\0", b'x', b'x', Find(Ok(8))),
    (65_535, b"/init\0", b'/', b'/', Find(Ok(3))),
    // Slashes up to the NUL, which is the last byte that can be read, and without it.
    (0, b"", b'/', 0, Find(Ok(1))),
    (0, b"", b'/', b'/', Find(Err(Errno::EFAULT))),
    (7, b"", b'/', 0, Find(Ok(1))),
    (7, b"", b'/', b'/', Find(Err(Errno::EFAULT))),
    (7, b"", b'/', b'/', Make(Err(Errno::EFAULT))),
    (7, b"/init", b'/', 0, Find(Ok(3))),
    (7, b"/init", b'/', b'/', Find(Err(Errno::EFAULT))),
    (7, b"/init", b'/', b'x', Find(Err(Errno::ENOTDIR))),
    (7, b"/etc", b'/', b'x', Find(Err(Errno::EFAULT))),
    // A component of 65,535 bytes.
    (7, b"/abcdefghijklmn", b'o', 0, Find(Ok(5))),
    (7, b"/abcdefghijklmn", b'o', b'o', Find(Err(Errno::EFAULT))),
    (7, b"/init/", b'o', b'o', Find(Err(Errno::ENOTDIR))),
];

/// Stores bytes from an address on.
fn store(space: &mut Whole, from: u16, bytes: &[u8]) {
    let mut at = from;
    for byte in bytes {
        let _ = space.store_byte(at, *byte);
        at = at.wrapping_add(1);
    }
}

fn long_memory(alloc: Global, row: &Long) -> Result<Whole, AllocError> {
    let (at, front, each, last, _) = *row;
    let mut space = Whole::new(alloc)?;
    space.set_sizes(0, 1024, 0);
    for place in 0..65_535 {
        let _ = space.store_byte(place, each);
    }
    store(&mut space, 65_535, &[each]);
    store(&mut space, at, front);
    store(&mut space, at.wrapping_sub(1), &[last]);
    Ok(space)
}

fn long_holds(alloc: Global, image: &[u8], row: &Long) -> Result<bool, AllocError> {
    let (at, _, _, _, ask) = *row;
    let Some(mut tree) = open_tree(alloc, image, 1, 0)? else {
        return Ok(false);
    };
    let space = long_memory(alloc, row)?;
    let right = answers(&mut tree, 1, OTHER, NameBytes::at(&space, at), ask);
    Ok(right && refers(&tree.nodes, 1, ask))
}

#[test]
fn a_name_has_65536_bytes_at_most(rt: HostRuntime) {
    let image = names_disk(&[]);
    for (k, row) in LONG.iter().enumerate() {
        assert!(rt;
            long_holds(rt.alloc(), &image, row).expect(&rt, "memory"),
            "row {k}"
        );
    }
}
