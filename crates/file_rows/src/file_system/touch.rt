//! Files that take blocks, by hand from file system(V) and bmap of Lions' Commentary: what is missing on the way to
//! a block is taken in order, and kept where there is no room for the rest.
ghost use Rattle.fs_codec.specs.Fields.{fields_of};
ghost use Rattle.fs_codec.specs.Held.{addresses};
ghost use Rattle.fs_laws.specs.Whole.{IsApart};
ghost use Rattle.fs_blocks.specs.State.{disk};

use crate::file_system::fixtures::{Word, image_of};
use crate::file_system::opened::{are_free, open_file};
use fs_blocks::Volume;
use fs_codec::{DiskNode, is_device, word_at};
use std::alloc::{AllocError, Global};
use v6_base::Errno;

/// Twenty blocks: inode 1 is a directory that holds block 3, and blocks 10 to 14 are free, and taken in this order;
/// each of them has a 7 in its first word and in its last. `nfree` is at 516, and its numbers from 518 on: where it
/// is one less, block 10 is not free. Inode 2 is at 1056: its mode comes first, then links and owner, owner's group
/// and the high byte of its size; the rest of its size is at 1062, its addresses are from 1064 to 1079, and its times
/// from 1080 on. Block n begins at 512 * n.
static DISK: [Word; 26] = [
    (512, 1),
    (514, 20),
    (516, 6),
    (520, 14),
    (522, 13),
    (524, 12),
    (526, 11),
    (528, 10),
    (1024, 0o140755),
    (1032, 3),
    (1058, 0x0201),
    (1060, 0x0103),
    (1062, 700),
    (1080, 1),
    (1084, 2),
    (1086, 3),
    (5120, 7),
    (5630, 7),
    (5632, 7),
    (6142, 7),
    (6144, 7),
    (6654, 7),
    (6656, 7),
    (7166, 7),
    (7168, 7),
    (7678, 7),
];

/// A file, the blocks of it that are touched, and what has become of it then.
#[derive(Clone, Copy)]
struct Row {
    /// Words of the disk, of which the first is the mode of inode 2.
    words: &'static [Word],
    /// Numbers of blocks of the file, and the answers.
    touches: &'static [(u32, Result<u16, Errno>)],
    mode: u16,
    addr: [u16; 8],
    /// Blocks of the disk, places of words in them, and these words.
    blocks: &'static [(u16, u16, u16)],
    /// Those that are still free, in the order in which they are taken.
    free: &'static [u16],
}

static FILES: [Row; 24] = [
    // The first and the last block of a small file, which are all zeros.
    Row {
        words: &[(1056, 0o100644)],
        touches: &[(0, Ok(10))],
        mode: 0o100644,
        addr: [10, 0, 0, 0, 0, 0, 0, 0],
        blocks: &[(10, 0, 0), (10, 255, 0), (11, 0, 7)],
        free: &[11, 12, 13, 14],
    },
    Row {
        words: &[(1056, 0o100644)],
        touches: &[(7, Ok(10))],
        mode: 0o100644,
        addr: [0, 0, 0, 0, 0, 0, 0, 10],
        blocks: &[(10, 0, 0), (10, 255, 0)],
        free: &[11, 12, 13, 14],
    },
    // What is there is not taken again.
    Row {
        words: &[(1056, 0o100644), (1066, 5), (2560, 7)],
        touches: &[
            (0, Ok(10)),
            (0, Ok(10)),
            (7, Ok(11)),
            (1, Ok(5)),
            (0, Ok(10)),
        ],
        mode: 0o100644,
        addr: [10, 5, 0, 0, 0, 0, 0, 11],
        blocks: &[(5, 0, 7)],
        free: &[12, 13, 14],
    },
    // The ninth block: 10 gets the addresses of the eight others, and 11 the data.
    Row {
        words: &[(1056, 0o100644), (1064, 4), (1066, 5), (1078, 9)],
        touches: &[(8, Ok(11))],
        mode: 0o110644,
        addr: [10, 0, 0, 0, 0, 0, 0, 0],
        blocks: &[
            (10, 0, 4),
            (10, 1, 5),
            (10, 2, 0),
            (10, 6, 0),
            (10, 7, 9),
            (10, 8, 11),
            (10, 9, 0),
            (10, 255, 0),
            (11, 0, 0),
            (11, 255, 0),
        ],
        free: &[12, 13, 14],
    },
    // The same of a directory, and then the blocks that were there before, and one that was not.
    Row {
        words: &[(1056, 0o140755), (1064, 4), (1066, 5), (1078, 9)],
        touches: &[
            (8, Ok(11)),
            (0, Ok(4)),
            (7, Ok(9)),
            (2, Ok(12)),
            (8, Ok(11)),
            (2, Ok(12)),
        ],
        mode: 0o150755,
        addr: [10, 0, 0, 0, 0, 0, 0, 0],
        blocks: &[
            (10, 0, 4),
            (10, 1, 5),
            (10, 2, 12),
            (10, 3, 0),
            (10, 7, 9),
            (10, 8, 11),
        ],
        free: &[13, 14],
    },
    // The last block that the first indirect block names.
    Row {
        words: &[(1056, 0o100644)],
        touches: &[(255, Ok(11))],
        mode: 0o110644,
        addr: [10, 0, 0, 0, 0, 0, 0, 0],
        blocks: &[(10, 0, 0), (10, 254, 0), (10, 255, 11)],
        free: &[12, 13, 14],
    },
    // The first that the second one names. A small file takes the first one too.
    Row {
        words: &[(1056, 0o100644), (1070, 6)],
        touches: &[(256, Ok(12))],
        mode: 0o110644,
        addr: [10, 11, 0, 0, 0, 0, 0, 0],
        blocks: &[
            (10, 3, 6),
            (10, 0, 0),
            (11, 0, 12),
            (11, 1, 0),
            (11, 255, 0),
            (12, 0, 0),
        ],
        free: &[13, 14],
    },
    // The last before the double indirect block, of a small file and of a large one.
    Row {
        words: &[(1056, 0o100644)],
        touches: &[(1791, Ok(12))],
        mode: 0o110644,
        addr: [10, 0, 0, 0, 0, 0, 11, 0],
        blocks: &[(11, 255, 12), (11, 254, 0), (11, 0, 0)],
        free: &[13, 14],
    },
    Row {
        words: &[(1056, 0o110644)],
        touches: &[(1791, Ok(11))],
        mode: 0o110644,
        addr: [0, 0, 0, 0, 0, 0, 10, 0],
        blocks: &[(10, 255, 11), (10, 254, 0)],
        free: &[12, 13, 14],
    },
    // The first behind it, and the last of all.
    Row {
        words: &[(1056, 0o100644)],
        touches: &[(1792, Ok(13))],
        mode: 0o110644,
        addr: [10, 0, 0, 0, 0, 0, 0, 11],
        blocks: &[
            (11, 0, 12),
            (11, 1, 0),
            (11, 255, 0),
            (12, 0, 13),
            (12, 1, 0),
            (13, 255, 0),
        ],
        free: &[14],
    },
    Row {
        words: &[(1056, 0o110644)],
        touches: &[(32767, Ok(12))],
        mode: 0o110644,
        addr: [0, 0, 0, 0, 0, 0, 0, 10],
        blocks: &[
            (10, 119, 0),
            (10, 120, 11),
            (10, 121, 0),
            (11, 254, 0),
            (11, 255, 12),
        ],
        free: &[13, 14],
    },
    // No file has these.
    Row {
        words: &[(1056, 0o100644)],
        touches: &[
            (32768, Err(Errno::EFBIG)),
            (65536, Err(Errno::EFBIG)),
            (4294967295, Err(Errno::EFBIG)),
        ],
        mode: 0o100644,
        addr: [0, 0, 0, 0, 0, 0, 0, 0],
        blocks: &[(10, 0, 7)],
        free: &[10, 11, 12, 13, 14],
    },
    // A large file with the indirect block 4, which names 5 at place 3.
    Row {
        words: &[(1056, 0o110644), (1064, 4), (2054, 5)],
        touches: &[(3, Ok(5)), (4, Ok(10)), (300, Ok(12)), (3, Ok(5))],
        mode: 0o110644,
        addr: [4, 11, 0, 0, 0, 0, 0, 0],
        blocks: &[
            (4, 3, 5),
            (4, 4, 10),
            (4, 5, 0),
            (11, 43, 0),
            (11, 44, 12),
            (11, 45, 0),
        ],
        free: &[13, 14],
    },
    // A large file with double indirect block 4, which names indirect block 5 at place 0; block 5 names 6 at place 1.
    Row {
        words: &[(1056, 0o110644), (1078, 4), (2048, 5), (2562, 6)],
        touches: &[
            (1793, Ok(6)),
            (1792, Ok(10)),
            (2048, Ok(12)),
            (2303, Ok(13)),
        ],
        mode: 0o110644,
        addr: [0, 0, 0, 0, 0, 0, 0, 4],
        blocks: &[
            (4, 0, 5),
            (4, 1, 11),
            (4, 2, 0),
            (5, 0, 10),
            (5, 1, 6),
            (11, 0, 12),
            (11, 255, 13),
        ],
        free: &[14],
    },
    // No room, for one block and for three.
    Row {
        words: &[(1056, 0o100644), (516, 1)],
        touches: &[(0, Err(Errno::ENOSPC))],
        mode: 0o100644,
        addr: [0, 0, 0, 0, 0, 0, 0, 0],
        blocks: &[(14, 0, 7)],
        free: &[],
    },
    Row {
        words: &[(1056, 0o100644), (516, 1), (1064, 4)],
        touches: &[(256, Err(Errno::ENOSPC)), (0, Ok(4))],
        mode: 0o100644,
        addr: [4, 0, 0, 0, 0, 0, 0, 0],
        blocks: &[],
        free: &[],
    },
    Row {
        words: &[(1056, 0o100644), (516, 0)],
        touches: &[(0, Err(Errno::ENOSPC))],
        mode: 0o100644,
        addr: [0, 0, 0, 0, 0, 0, 0, 0],
        blocks: &[],
        free: &[],
    },
    // Room for one of two, one of three, two of three, all three, and three of four. What was taken stays.
    Row {
        words: &[(1056, 0o100644), (516, 2), (1064, 4)],
        touches: &[(8, Err(Errno::ENOSPC)), (0, Ok(4)), (1, Err(Errno::ENOSPC))],
        mode: 0o110644,
        addr: [14, 0, 0, 0, 0, 0, 0, 0],
        blocks: &[(14, 0, 4), (14, 1, 0), (14, 8, 0), (14, 255, 0)],
        free: &[],
    },
    Row {
        words: &[(1056, 0o100644), (516, 2), (1064, 4)],
        touches: &[(256, Err(Errno::ENOSPC))],
        mode: 0o110644,
        addr: [14, 0, 0, 0, 0, 0, 0, 0],
        blocks: &[(14, 0, 4), (14, 1, 0)],
        free: &[],
    },
    Row {
        words: &[(1056, 0o100644), (516, 3), (1064, 4)],
        touches: &[(256, Err(Errno::ENOSPC))],
        mode: 0o110644,
        addr: [13, 14, 0, 0, 0, 0, 0, 0],
        blocks: &[(13, 0, 4), (14, 0, 0), (14, 255, 0)],
        free: &[],
    },
    Row {
        words: &[(1056, 0o100644), (516, 4), (1064, 4)],
        touches: &[(256, Ok(14)), (257, Err(Errno::ENOSPC))],
        mode: 0o110644,
        addr: [12, 13, 0, 0, 0, 0, 0, 0],
        blocks: &[(12, 0, 4), (13, 0, 14), (13, 1, 0)],
        free: &[],
    },
    Row {
        words: &[(1056, 0o100644), (516, 4), (1064, 4)],
        touches: &[(1792, Err(Errno::ENOSPC))],
        mode: 0o110644,
        addr: [12, 0, 0, 0, 0, 0, 0, 13],
        blocks: &[(12, 0, 4), (13, 0, 14), (13, 1, 0), (14, 0, 0)],
        free: &[],
    },
    // Room for the one block that is missing of three, and then for none.
    Row {
        words: &[(1056, 0o110644), (516, 2), (1078, 4), (2048, 5)],
        touches: &[
            (1792, Ok(14)),
            (1793, Err(Errno::ENOSPC)),
            (0, Err(Errno::ENOSPC)),
        ],
        mode: 0o110644,
        addr: [0, 0, 0, 0, 0, 0, 0, 4],
        blocks: &[(4, 0, 5), (5, 0, 14), (5, 1, 0)],
        free: &[],
    },
    // All bits of the mode but the type stay, and the file is large.
    Row {
        words: &[(1056, 0o107777)],
        touches: &[(8, Ok(11))],
        mode: 0o117777,
        addr: [10, 0, 0, 0, 0, 0, 0, 0],
        blocks: &[(10, 8, 11)],
        free: &[12, 13, 14],
    },
];

/// Touches these blocks in order, and says whether each answer is the one that it must be.
fn answers(volume: &mut Volume, node: &mut DiskNode, touches: &[(u32, Result<u16, Errno>)]) -> bool
    requires { IsApart (disk volume.old.state) (addresses (disk volume.old.state) (fields_of node.old)) }
{
    for (number, answer) in touches {
        if is_device(node.mode) {
            return false;
        }
        let found = volume.touch(node, *number);
        if found != *answer {
            return false;
        }
    }
    true
}

/// Whether these words stand in these blocks.
fn stand(volume: &mut Volume, blocks: &[(u16, u16, u16)]) -> bool {
    for (block, place, word) in blocks {
        if *block >= 20 || *place > 255 {
            return false;
        }
        if word_at(volume.block(*block), 2 * *place as usize) != *word {
            return false;
        }
    }
    true
}

/// The inode that the row wants.
fn wanted(row: &Row) -> DiskNode {
    DiskNode {
        mode: row.mode,
        nlink: 1,
        uid: 2,
        gid: 3,
        size: 66236,
        addr: row.addr,
        actime: 65536,
        modtime: 131075,
    }
}

/// Touches blocks of inode 2, where it is a file.
fn holds(alloc: Global, row: &Row) -> Result<bool, AllocError> {
    let Some(mut file) = open_file(alloc, &image_of(&DISK, row.words))? else {
        return Ok(false);
    };
    if is_device(file.node.mode) {
        return Ok(false);
    }
    Ok(
        answers(&mut file.volume, &mut file.node, row.touches)
            && file.node == wanted(row)
            && stand(&mut file.volume, row.blocks)
            && are_free(&mut file.volume, row.free),
    )
}

#[test]
fn files_take_what_they_lack(rt: HostRuntime) {
    for (k, row) in FILES.iter().enumerate() {
        assert!(rt; holds(rt.alloc(), row).expect(&rt, "memory"), "row {k}");
    }
}
