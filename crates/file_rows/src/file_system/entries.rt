//! Entries that are written, by hand from docs/manual/names.md and inodes.md, which are wdir and unlink of Lions'
//! Commentary: both are writes of a directory, which set both its times.
use crate::file_system::fixtures::Word;
use crate::file_system::names_disk::{names_disk, open_tree};
use crate::file_system::opened::disk_has;
use fs_codec::is_directory;
use fs_tree::Tree;
use std::alloc::{AllocError, Global};
use v6_base::Errno;

/// What is done: an inode is entered as `new` at a byte of a directory, or the entry there is removed.
#[derive(Clone, Copy)]
enum Change {
    Enter(u16, u32, u16),
    Remove(u16, u32),
}

use Change::{Enter, Remove};

/// The time of each call, whose words are 5 and 6.
const TIME: u32 = 0x0005_0006;

/// Words of the disk before, the call, its answer, and words of the disk after. `nfree` is at 516 and is 3: blocks 18
/// and 19 are free, and 18 is taken first; where it is 2 only 19 is free, and where it is 1 no block is. Inode 2 is at
/// 1056, inode 6 at 1184, inode 7 at 1216, inode 9 at 1280: the mode comes first, the size after 6 bytes, the first
/// address after 8, the times after 24. Block n begins at 512 * n.
type Row = (&'static [Word], Change, Result<(), Errno>, &'static [Word]);

static ROWS: [Row; 23] = [
    // The empty entry `gone` of inode 2, which is the third of block 11: its number and its whole name, and no other
    // entry.
    (
        &[],
        Enter(2, 32, 3),
        Ok(()),
        &[
            (5648, 1),
            (5664, 3),
            (5666, 0x656e),
            (5668, 0x0077),
            (5670, 0),
            (5678, 0),
            (5680, 8),
            (1062, 79),
            (1080, 5),
            (1082, 6),
            (1084, 5),
            (1086, 6),
            (516, 3),
        ],
    ),
    // The last entry of inode 9, which is empty, and the place past its end.
    (
        &[(1286, 48)],
        Enter(9, 32, 5),
        Ok(()),
        &[(8224, 5), (8226, 0x656e), (1286, 48), (1304, 5), (1308, 5)],
    ),
    (
        &[],
        Enter(9, 32, 128),
        Ok(()),
        &[(8224, 128), (8226, 0x656e), (1286, 48)],
    ),
    // Five bytes past the end of the entries go.
    (
        &[(1286, 37), (8224, 0x1111), (8238, 0x2222)],
        Enter(9, 32, 5),
        Ok(()),
        &[(8224, 5), (8226, 0x656e), (8238, 0), (1286, 48)],
    ),
    // A second block, which is all zeros but for the entry.
    (
        &[(1286, 512)],
        Enter(9, 512, 5),
        Ok(()),
        &[
            (1290, 18),
            (9216, 5),
            (9218, 0x656e),
            (9232, 0),
            (9234, 0),
            (1286, 528),
            (516, 2),
        ],
    ),
    // A hole: the block is taken, and the size stays.
    (
        &[],
        Enter(6, 0, 5),
        Ok(()),
        &[
            (1192, 18),
            (1194, 13),
            (9216, 5),
            (9218, 0x656e),
            (9232, 0),
            (9234, 0),
            (1190, 544),
            (516, 2),
        ],
    ),
    (
        &[],
        Enter(6, 496, 5),
        Ok(()),
        &[(1192, 18), (9216, 0), (9712, 5), (1190, 544)],
    ),
    // No block is free: only the times are set.
    (
        &[(516, 1)],
        Enter(6, 0, 5),
        Err(Errno::ENOSPC),
        &[(1192, 0), (1194, 13), (1190, 544), (1208, 5), (1212, 5)],
    ),
    (
        &[(516, 1), (1286, 512)],
        Enter(9, 512, 5),
        Err(Errno::ENOSPC),
        &[
            (1290, 0),
            (1286, 512),
            (1304, 5),
            (1306, 6),
            (1308, 5),
            (1310, 6),
        ],
    ),
    // The last place of the largest directory: it becomes large, with indirect block 18 and block 127 in 19.
    (
        &[(1286, 65_504)],
        Enter(9, 65_504, 5),
        Ok(()),
        &[
            (1280, 0o150755),
            (1288, 18),
            (9216, 16),
            (9470, 19),
            (10_208, 5),
            (10_210, 0x656e),
            (1286, 65_520),
        ],
    ),
    // It is large also where there is no block for the entry.
    (
        &[(516, 2), (1286, 65_504)],
        Enter(9, 65_504, 5),
        Err(Errno::ENOSPC),
        &[
            (1280, 0o150755),
            (1288, 19),
            (9728, 16),
            (1286, 65_504),
            (1304, 5),
            (1308, 5),
        ],
    ),
    // Past 65,520 bytes, of a full directory and of a small one: no block is taken, and the times are set.
    (
        &[(1286, 65_520)],
        Enter(9, 65_520, 5),
        Err(Errno::EFBIG),
        &[
            (1280, 0o140755),
            (1288, 16),
            (1286, 65_520),
            (516, 3),
            (1304, 5),
            (1308, 5),
        ],
    ),
    (
        &[],
        Enter(9, 65_520, 5),
        Err(Errno::EFBIG),
        &[
            (1280, 0o140755),
            (1288, 16),
            (1286, 32),
            (516, 3),
            (1304, 5),
            (1308, 5),
        ],
    ),
    (
        &[(1286, 65_535)],
        Enter(9, 65_520, 5),
        Err(Errno::EFBIG),
        &[(1280, 0o140755), (1288, 16), (1286, 65_535), (1304, 5)],
    ),
    // A directory of 65,568 bytes is written within itself.
    (
        &[],
        Enter(7, 16, 2),
        Ok(()),
        &[(7184, 2), (7186, 0x656e), (1220, 0x0102), (1222, 32)],
    ),
    (
        &[],
        Enter(7, 65_520, 2),
        Ok(()),
        &[
            (1216, 0o150010),
            (1220, 0x0102),
            (1222, 32),
            (1224, 18),
            (9470, 19),
            (10_224, 2),
            (10_226, 0x656e),
        ],
    ),
    // The entry `init` of the root: its number is 0 then, and its name and its neighbours stay.
    (
        &[],
        Remove(1, 64),
        Ok(()),
        &[
            (5168, 0),
            (5184, 0),
            (5186, 0x6e69),
            (5188, 0x7469),
            (5190, 0),
            (5200, 20),
            (1030, 229),
            (1048, 5),
            (1050, 6),
            (1052, 5),
            (1054, 6),
            (516, 3),
        ],
    ),
    (
        &[],
        Remove(9, 0),
        Ok(()),
        &[
            (8192, 0),
            (8194, 0x6966),
            (8208, 5),
            (1286, 32),
            (1304, 5),
            (1308, 5),
        ],
    ),
    // In a hole a block is taken, where one is free.
    (
        &[],
        Remove(6, 16),
        Ok(()),
        &[(1192, 18), (9232, 0), (9234, 0), (1190, 544), (516, 2)],
    ),
    (
        &[(516, 1)],
        Remove(6, 16),
        Err(Errno::ENOSPC),
        &[(1192, 0), (1190, 544), (1208, 5), (1212, 5)],
    ),
    // Past the end of the directory it writes its two bytes.
    (
        &[],
        Remove(9, 32),
        Ok(()),
        &[(8224, 0), (1286, 34), (516, 3)],
    ),
    (
        &[(1286, 65_520)],
        Remove(9, 65_520),
        Err(Errno::EFBIG),
        &[
            (1280, 0o140755),
            (1288, 16),
            (1286, 65_520),
            (1304, 5),
            (1308, 5),
        ],
    ),
    // Of a directory of 65,535 bytes the first two behind byte 65,520 are its own.
    (
        &[(1286, 65_535), (516, 3)],
        Remove(9, 65_520),
        Ok(()),
        &[
            (1280, 0o150755),
            (1288, 18),
            (9470, 19),
            (10_224, 0),
            (1286, 65_535),
        ],
    ),
];

/// Enters an inode as `new` at a byte of a directory that is referred to.
pub fn enter(tree: &mut Tree, dir: u16, offset: u32, ino: u16) -> Result<(), Errno> {
    if tree.nodes.refs(dir) == 0 || !is_directory(tree.nodes.node(dir).mode) {
        return Err(Errno::EINVAL);
    }
    if offset % 16 != 0 || offset > 65_520 {
        return Err(Errno::EINVAL);
    }
    if tree.mounts.split(ino).0 != tree.mounts.split(dir).0 {
        return Err(Errno::EINVAL);
    }
    tree.enter(dir, offset, *b"new\0\0\0\0\0\0\0\0\0\0\0", ino, TIME)
}

fn remove(tree: &mut Tree, dir: u16, offset: u32) -> Result<(), Errno> {
    if tree.nodes.refs(dir) == 0 || !is_directory(tree.nodes.node(dir).mode) {
        return Err(Errno::EINVAL);
    }
    if offset % 16 != 0 || offset > 65_520 {
        return Err(Errno::EINVAL);
    }
    tree.remove(dir, offset, TIME)
}

fn directory(change: Change) -> u16 {
    match change {
        Enter(dir, _, _) | Remove(dir, _) => dir,
    }
}

fn holds(alloc: Global, row: &Row) -> Result<bool, AllocError> {
    let (before, change, wanted, after) = *row;
    let Some(mut tree) = open_tree(alloc, &names_disk(before), directory(change), 0)? else {
        return Ok(false);
    };
    let answer = match change {
        Enter(dir, offset, ino) => enter(&mut tree, dir, offset, ino),
        Remove(dir, offset) => remove(&mut tree, dir, offset),
    };
    tree.nodes.update_all(9);
    Ok(answer == wanted && disk_has(&tree.nodes, after))
}

#[test]
fn entries_are_written_and_removed(rt: HostRuntime) {
    for (k, row) in ROWS.iter().enumerate() {
        assert!(rt; holds(rt.alloc(), row).expect(&rt, "memory"), "row {k}");
    }
}
