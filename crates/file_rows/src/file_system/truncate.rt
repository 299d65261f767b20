//! Files that give all their blocks back, by hand from file system(V) and from itrunc, free and alloc of Lions'
//! Commentary: blocks go from the last address to the first, an indirect block after the blocks that it names, and the
//! one that went last is taken first.
ghost use Rattle.std.specs.Prelude.{◌≡◌, false};
ghost use Rattle.fs_codec.specs.Fields.{fields_of};
ghost use Rattle.fs_codec.specs.Held.{addresses};
ghost use Rattle.fs_codec.specs.Modes.{is_device};
ghost use Rattle.fs_laws.specs.Whole.{IsApart};
ghost use Rattle.fs_blocks.specs.State.{disk};

use crate::file_system::fixtures::{Word, image_of};
use crate::file_system::opened::{are_free, open_file};
use fs_blocks::Volume;
use fs_codec::DiskNode;
use std::alloc::{AllocError, Global};
use std::process::Abort;

/// Twenty blocks: inode 1 is a directory that holds block 3, and block 4 is free. `nfree` is at 516 and its numbers
/// from 518 on. Inode 2 is at 1056: its mode comes first, then links and owner, owner's group and the high byte of its
/// size; the rest of its size is at 1062, its addresses are from 1064 to 1079, and its times from 1080 on. Block n
/// begins at 512 * n.
static DISK: [Word; 12] = [
    (512, 1),
    (514, 20),
    (516, 2),
    (520, 4),
    (1024, 0o140755),
    (1032, 3),
    (1058, 0x0201),
    (1060, 0x0103),
    (1062, 700),
    (1080, 1),
    (1084, 2),
    (1086, 3),
];

/// Words of the disk, of which the first is the mode of inode 2; its mode when its file was truncated; and the blocks
/// that are free then, in the order in which they are taken.
type Row = (&'static [Word], u16, &'static [u16]);

static FILES: [Row; 12] = [
    // No block, with each type, all other bits of the mode, no bit for use, and large.
    (&[(1056, 0o100644)], 0o100644, &[4]),
    (&[(1056, 0o147777)], 0o147777, &[4]),
    (&[(1056, 0o107777)], 0o107777, &[4]),
    (&[(1056, 0o000001)], 0o100001, &[4]),
    (&[(1056, 0o117777)], 0o107777, &[4]),
    // A small file: block 9 goes first and block 6 last.
    (
        &[(1056, 0o100644), (1064, 6), (1068, 8), (1070, 7), (1078, 9)],
        0o100644,
        &[6, 8, 7, 9, 4],
    ),
    // A small file, where the super-block has 100 numbers, of which the last but one is 0.
    (
        &[
            (1056, 0o100644),
            (516, 100),
            (520, 0),
            (716, 4),
            (1066, 5),
            (1068, 19),
        ],
        0o100644,
        &[5, 19, 4],
    ),
    // A large file with an indirect block: 12, 8 and 11 go, then 5, which names them at places 255, 3 and 1.
    (
        &[
            (1056, 0o110644),
            (1064, 5),
            (2562, 11),
            (2566, 8),
            (3070, 12),
        ],
        0o100644,
        &[5, 11, 8, 12, 4],
    ),
    // A large file with three indirect blocks, of which the second names none: 10, 9, 7, 6, 5.
    (
        &[
            (1056, 0o110644),
            (1064, 5),
            (2560, 6),
            (1068, 7),
            (1076, 9),
            (4608, 10),
        ],
        0o100644,
        &[5, 6, 7, 9, 10, 4],
    ),
    // A large file with a double indirect block, 5, that names 8 at place 255, 7 at 3 and 6 at 0. Block 8 names none,
    // block 7 names 10 at place 255 and 11 at 0, and block 6 names 9 at place 1: 8, 10, 11, 7, 9, 6, 5, and then 13 and
    // 12.
    (
        &[
            (1056, 0o150755),
            (1064, 12),
            (6144, 13),
            (1078, 5),
            (2560, 6),
            (2566, 7),
            (3070, 8),
            (3074, 9),
            (3584, 11),
            (4094, 10),
        ],
        0o140755,
        &[12, 13, 5, 6, 9, 7, 11, 10, 8, 4],
    ),
    // Devices.
    (&[(1056, 0o120666), (1064, 5)], 0o120666, &[4]),
    (&[(1056, 0o170666), (1064, 5)], 0o170666, &[4]),
];

/// The inode that the row wants: a device's is as it was.
fn wanted(before: DiskNode, mode: u16) -> DiskNode {
    if before.mode == 0o120666 || before.mode == 0o170666 {
        return before;
    }
    DiskNode {
        mode,
        nlink: 1,
        uid: 2,
        gid: 3,
        size: 0,
        addr: [0; 8],
        actime: 65536,
        modtime: 131075,
    }
}

/// Truncates an inode. The super-block is written by the sync where blocks have been given back.
fn truncates(volume: &mut Volume, node: &mut DiskNode, mode: u16, some: bool) -> bool
    requires { is_device node.old.mode ≡ false
        → IsApart (disk volume.old.state) (addresses (disk volume.old.state) (fields_of node.old)) }
{
    let before = *node;
    volume.truncate(node);
    volume.sync(5);
    *node == wanted(before, mode) && (volume.head().time == 5) == some
}

fn holds(alloc: Global, row: &Row) -> Result<bool, AllocError> {
    let (words, mode, free) = *row;
    let Some(mut file) = open_file(alloc, &image_of(&DISK, words))? else {
        return Ok(false);
    };
    Ok(
        truncates(&mut file.volume, &mut file.node, mode, free.len() > 1)
            && are_free(&mut file.volume, free),
    )
}

#[test]
fn files_give_their_blocks_back_in_order(rt: HostRuntime) {
    for (k, row) in FILES.iter().enumerate() {
        assert!(rt; holds(rt.alloc(), row).expect(&rt, "memory"), "row {k}");
    }
}
