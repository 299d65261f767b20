//! A file system through some forty calls, worked on paper from docs/manual/inodes.md and blocks.md: after each part of
//! them the disk has no fault, and its counts, its inodes, its indirect blocks and its free blocks are these.
//!
//! The disk has forty blocks: blocks 0 to 2 are no data blocks, 3 is the root's, and the 36 from 4 to 39 are free, and
//! taken in this order. The super-block names those from 4 to 10, and block 10 the others. There are sixteen inodes, and
//! the list of free ones is 9, 5, 12.
use crate::file_system::calls::{Call, answer};
use crate::file_system::fixtures::{Word, have_words, put_words};
use crate::file_system::opened::{are_free, open, open_volume, written};
use Call::{Links, Mode, New, Owner, Put, Read, Take, Truncate, Write};
use fs_check::{accept, tally};
use fs_codec::inode_in;
use fs_nodes::Nodes;
use std::alloc::{AllocError, Global};
use v6_base::Errno;

/// How many blocks the disk has.
const BLOCKS: u16 = 40;

/// The sizes; the group of the super-block, which ends with 4, and that of block 10, from 5120 on, which ends with 11;
/// the list of free inodes; the root with its two entries.
static DISK: [Word; 20] = [
    (512, 1),
    (514, 40),
    (516, 7),
    (518, 10),
    (520, 9),
    (522, 8),
    (524, 7),
    (526, 6),
    (528, 5),
    (530, 4),
    (718, 3),
    (720, 9),
    (722, 5),
    (724, 12),
    (1024, 0o140755),
    (1026, 2),
    (1030, 32),
    (1032, 3),
    (1536, 1),
    (1552, 1),
];

/// The time of a call, the call, the number or the count that it answers, and its error.
type Step = (u32, Call, u16, Option<Errno>);

/// An inode and the fields that it must have.
#[derive(Clone, Copy)]
struct Inode {
    ino: u32,
    mode: u16,
    /// The number of links, the owner and the group.
    ids: (u8, u8, u8),
    size: u32,
    addr: [u16; 8],
    /// The times of the last access and of the last change.
    times: (u32, u32),
}

/// Calls, and what stands on the disk after them.
#[derive(Clone, Copy)]
struct Part {
    steps: &'static [Step],
    /// How many inodes are used.
    used: u16,
    /// The free blocks, in the order in which they are taken.
    free: &'static [u16],
    inodes: &'static [Inode],
    words: &'static [Word],
}

static PARTS: [Part; 4] = [
    // One file grows. By hand, the blocks that it takes:
    //   3: bytes 0 to 599, data 0 and 1 in 4 and 5.
    //   4: data 7 in 6, and the size is 3,684.
    //   5: bytes 1000 to 1099, of which those from 1024 on are in a hole, data 2: in 7.
    //   6: bytes 4090 to 4099, data 7 and 8: the file becomes large, with indirect block 0 in 8, and data 8 in 9.
    //   7: byte 131,072 is the first of data 256: indirect block 1 in 10, and data 256 in 11.
    //   8: byte 917,504 is the first of data 1792: the double indirect block in 12, indirect block 7 in 13, data 1792
    //      in 14.
    //   9: byte 16,777,215 would be the last: no block.
    //  10: byte 16,777,214, the last that a file may have, is of data 32767: indirect block 127 in 15, at entry 120 of
    //      12, and data 32767 in 16.
    // The root has one block, and the file the thirteen from 4 to 16: 23 of 37 are free.
    Part {
        steps: &[
            (1, New(0o644, 5, 6), 12, None),
            (2, Links(12, 1), 0, None),
            (3, Write(12, 0, 600), 600, None),
            (4, Write(12, 3584, 100), 100, None),
            (5, Read(12, 1000, 100), 100, None),
            (6, Write(12, 4090, 10), 10, None),
            (7, Write(12, 131_072, 5), 5, None),
            (8, Write(12, 917_504, 1), 1, None),
            (9, Write(12, 16_777_214, 2), 0, Some(Errno::EFBIG)),
            (10, Write(12, 16_777_214, 1), 1, None),
        ],
        used: 2,
        free: &[
            17, 18, 19, 20, 21, 22, 23, 24, 25, 26, 27, 28, 29, 30, 31, 32, 33, 34, 35, 36, 37, 38,
            39,
        ],
        inodes: &[
            Inode {
                ino: 1,
                mode: 0o140755,
                ids: (2, 0, 0),
                size: 32,
                addr: [3, 0, 0, 0, 0, 0, 0, 0],
                times: (0, 0),
            },
            Inode {
                ino: 12,
                mode: 0o110644,
                ids: (1, 5, 6),
                size: 16_777_215,
                addr: [8, 10, 0, 0, 0, 0, 0, 12],
                times: (10, 10),
            },
        ],
        words: &[
            // Data 0 ends with threes; data 1 has 88 of them. Data 7 begins with fours, and ends with sixes.
            (2048, 0x0303),
            (2558, 0x0303),
            (2646, 0x0303),
            (2648, 0),
            (3072, 0x0404),
            (3170, 0x0404),
            (3172, 0),
            (3576, 0),
            (3578, 0x0606),
            (3582, 0x0606),
            // Data 2 is all zeros.
            (3584, 0),
            (4094, 0),
            // Indirect block 0: data 0, 1, 2, 7 and 8.
            (4096, 4),
            (4098, 5),
            (4100, 7),
            (4102, 0),
            (4110, 6),
            (4112, 9),
            (4114, 0),
            (4608, 0x0606),
            (4610, 0x0606),
            (4612, 0),
            // Indirect block 1, where a group of the free list was, and data 256.
            (5120, 11),
            (5122, 0),
            (5178, 0),
            (5632, 0x0707),
            (5636, 0x0007),
            // The double indirect block, indirect blocks 7 and 127, and data 1792 and 32767.
            (6144, 13),
            (6146, 0),
            (6384, 15),
            (6386, 0),
            (6656, 14),
            (7168, 8),
            (7680, 0),
            (8190, 16),
            (8192, 0),
            (8702, 0x000a),
        ],
    },
    // A directory, a file that goes and comes again, and one that is new.
    //  13: data 0 of the directory in 17.
    //  14: an entry from byte 65,520 on would end behind it.
    //  15: bytes 65,000 to 65,023 are of data 126: the directory becomes large, with indirect block 0 in 18, and data
    //      126 in 19; the next piece would end at 65,536, of 65,600.
    //  17: data 1 of inode 9 in 20.
    //  20: bytes 0 to 511 are a hole, data 0: in 21. 1,024 bytes are read.
    //  21: the last reference goes, and the inode has no link: 20 is given back, and then 21.
    //  22: number 9 came to the end of the list, and is drawn again. The list is empty.
    //  23: the list is filled with 2, 3, 4, 6, 7, 8, 10, 11, 13, 14, 15, 16: 1, 5, 9 and 12 are used. 16 is drawn.
    //  25: data 0 of inode 9 in 21, which went last.
    // The root has one block, the large file 13, the directory three, inode 9 one: 19 of 37 are free.
    Part {
        steps: &[
            (11, New(0o040755, 0, 0), 5, None),
            (12, Links(5, 2), 0, None),
            (13, Write(5, 0, 32), 32, None),
            (14, Write(5, 65_520, 16), 0, Some(Errno::EFBIG)),
            (15, Write(5, 65_000, 600), 24, Some(Errno::EFBIG)),
            (16, New(0o600, 1, 1), 9, None),
            (17, Write(9, 512, 512), 512, None),
            (18, Take(9), 0, None),
            (19, Put(9), 0, None),
            (20, Read(9, 0, 1024), 1024, None),
            (21, Put(9), 0, None),
            (22, New(0o755, 2, 3), 9, None),
            (23, New(0o644, 0, 0), 16, None),
            (24, Links(16, 1), 0, None),
            (25, Write(9, 0, 1), 1, None),
        ],
        used: 5,
        free: &[
            20, 22, 23, 24, 25, 26, 27, 28, 29, 30, 31, 32, 33, 34, 35, 36, 37, 38, 39,
        ],
        inodes: &[
            Inode {
                ino: 5,
                mode: 0o150755,
                ids: (2, 0, 0),
                size: 65_024,
                addr: [18, 0, 0, 0, 0, 0, 0, 0],
                times: (15, 15),
            },
            Inode {
                ino: 9,
                mode: 0o100755,
                ids: (0, 2, 3),
                size: 1,
                addr: [21, 0, 0, 0, 0, 0, 0, 0],
                times: (25, 25),
            },
            Inode {
                ino: 16,
                mode: 0o100644,
                ids: (1, 0, 0),
                size: 0,
                addr: [0; 8],
                times: (23, 24),
            },
        ],
        words: &[
            // Indirect block 0 of the directory: data 0 and 126; bytes 488 to 511 of the latter.
            (9216, 17),
            (9218, 0),
            (9468, 19),
            (9470, 0),
            (10_214, 0),
            (10_216, 0x0f0f),
            (10_238, 0x0f0f),
            // The one byte of inode 9, in a block that was full of zeros.
            (10_752, 0x0019),
            // The list of free inodes.
            (718, 11),
            (720, 2),
            (740, 15),
        ],
    },
    // The large file gives its blocks back, from the last address to the first, each indirect block after those that it
    // names: 16, 15, 14, 13, 12; 11, 10; 9, 6, 7, 5, 4, 8. So 8, 4, 5, 7, 6, 9, 10 to 16 are free, and then 20 and
    // those from 22 on.
    //  27: bytes 100 to 2,099, data 0 to 4 in 8, 4, 5, 7, 6.
    //  28: byte 4,096 of inode 16: it is large with indirect block 0 in 9, and data 8 in 10.
    //  29: data 0 to 13, of which 8 is there: 0 to 7 in 11, 12, 13, 14, 15, 16, 20, 22, and 9 to 13 in 23 to 27.
    //  30: inode 9 from byte 512 on: data 1 to 7 in 28 to 34; it becomes large with indirect block 0 in 35; data 8 to
    //      11 in 36 to 39; there is none for data 12. So 11 blocks of bytes are written, up to byte 6,143.
    //  31: a read at the end. 32: data 14, for which there is none. 33: data 1 of the directory, for which there is
    //      none.
    // The root has one block, inode 12 five, inode 16 fifteen, inode 9 thirteen, the directory three: all 37.
    Part {
        steps: &[
            (26, Truncate(12), 0, None),
            (27, Write(12, 100, 2000), 2000, None),
            (28, Write(16, 4096, 10), 10, None),
            (29, Write(16, 0, 7168), 7168, None),
            (30, Write(9, 512, 7680), 5632, Some(Errno::ENOSPC)),
            (31, Read(16, 7168, 1), 0, None),
            (32, Write(16, 7168, 1), 0, Some(Errno::ENOSPC)),
            (33, Read(5, 512, 16), 0, Some(Errno::ENOSPC)),
        ],
        used: 5,
        free: &[],
        inodes: &[
            Inode {
                ino: 5,
                mode: 0o150755,
                ids: (2, 0, 0),
                size: 65_024,
                addr: [18, 0, 0, 0, 0, 0, 0, 0],
                times: (33, 15),
            },
            Inode {
                ino: 9,
                mode: 0o110755,
                ids: (0, 2, 3),
                size: 6144,
                addr: [35, 0, 0, 0, 0, 0, 0, 0],
                times: (30, 30),
            },
            Inode {
                ino: 12,
                mode: 0o100644,
                ids: (1, 5, 6),
                size: 2100,
                addr: [8, 4, 5, 7, 6, 0, 0, 0],
                times: (27, 27),
            },
            Inode {
                ino: 16,
                mode: 0o110644,
                ids: (1, 0, 0),
                size: 7168,
                addr: [9, 0, 0, 0, 0, 0, 0, 0],
                times: (32, 32),
            },
        ],
        words: &[
            // Data 0 of inode 12 begins with zeros, where addresses were, and data 4 ends with them.
            (4096, 0),
            (4194, 0),
            (4196, 0x1b1b),
            (3122, 0x1b1b),
            (3124, 0),
            (3582, 0),
            // Indirect block 0 of inode 16.
            (4608, 11),
            (4618, 16),
            (4620, 20),
            (4622, 22),
            (4624, 10),
            (4626, 23),
            (4634, 27),
            (4636, 0),
            // Indirect block 0 of inode 9: data 0 to 7, 8 to 11, and none for 12. Data 0 has its one byte, data 11 the
            // call's.
            (17_920, 21),
            (17_922, 28),
            (17_934, 34),
            (17_936, 36),
            (17_942, 39),
            (17_944, 0),
            (10_752, 0x0019),
            (20_478, 0x1e1e),
        ],
    },
    // Of inode 16 the mode and the owner are set, and the reference goes; it has a link.
    //  37: the directory gives back 19, 17 and 18. 38: its data 0 in 18.
    //  39: inode 9 goes, and gives back 39, 38, 37, 36, 34 to 28, 21 and 35. Its number comes to the end of the list.
    //  40: so it is drawn, 41: and goes again, without a block.
    // The root has one block, the directory one, inode 12 five, inode 16 fifteen: 15 of 37 are free.
    Part {
        steps: &[
            (34, Mode(16, 0o110600), 0, None),
            (35, Owner(16, 7, 8), 0, None),
            (36, Put(16), 0, None),
            (37, Truncate(5), 0, None),
            (38, Write(5, 0, 32), 32, None),
            (39, Put(9), 0, None),
            (40, New(0o644, 3, 4), 9, None),
            (41, Put(9), 0, None),
        ],
        used: 4,
        free: &[35, 21, 28, 29, 30, 31, 32, 33, 34, 36, 37, 38, 39, 17, 19],
        inodes: &[
            Inode {
                ino: 5,
                mode: 0o140755,
                ids: (2, 0, 0),
                size: 32,
                addr: [18, 0, 0, 0, 0, 0, 0, 0],
                times: (38, 38),
            },
            Inode {
                ino: 9,
                mode: 0,
                ids: (0, 3, 4),
                size: 0,
                addr: [0; 8],
                times: (40, 40),
            },
            Inode {
                ino: 12,
                mode: 0o100644,
                ids: (1, 5, 6),
                size: 2100,
                addr: [8, 4, 5, 7, 6, 0, 0, 0],
                times: (27, 27),
            },
            Inode {
                ino: 16,
                mode: 0o110600,
                ids: (1, 7, 8),
                size: 7168,
                addr: [9, 0, 0, 0, 0, 0, 0, 0],
                times: (32, 35),
            },
        ],
        words: &[
            // The list is 2, 3, 4, 6, 7, 8, 10, 11, 13, 14, 15, 9.
            (718, 12),
            (740, 15),
            (742, 9),
            // The entries of the directory, and zeros behind them.
            (9216, 0x2626),
            (9246, 0x2626),
            (9248, 0),
            (9468, 0),
        ],
    },
];

/// The group of the free list in block 10: a 0, and 39 down to 11.
fn put_group(image: &mut [u8]) {
    put_words(image, &[(5120, 30)]);
    for k in 0..29_u16 {
        put_words(image, &[(5124 + 2 * usize::from(k), 39 - k)]);
    }
}

fn disk() -> [u8; 20_480] {
    let mut image = [0; 20_480];
    put_words(&mut image, &DISK);
    put_group(&mut image);
    image
}

/// Whether each call answers what the paper says.
fn goes(nodes: &mut Nodes, steps: &[Step]) -> bool {
    for (time, call, number, error) in steps {
        if answer(nodes, *call, *time) != (*number, *error) {
            return false;
        }
    }
    true
}

/// Whether an inode of the image has these fields.
fn stands(image: &[u8], inode: &Inode) -> bool {
    let node = inode_in(image, inode.ino);
    node.mode == inode.mode
        && (node.nlink, node.uid, node.gid) == inode.ids
        && node.size == inode.size
        && node.addr == inode.addr
        && (node.actime, node.modtime) == inode.times
}

fn all_stand(image: &[u8], inodes: &[Inode]) -> bool {
    inodes.iter().all(|inode| stands(image, inode))
}

/// Whether the image has no fault, and so many used inodes and free blocks.
fn counts(image: &[u8], part: &Part) -> bool {
    if accept(image).is_err() {
        return false;
    }
    let counts = tally(image);
    counts.nodes == part.used && usize::from(counts.free) == part.free.len()
}

/// Whether these are the free blocks of the image, in this order.
fn frees(alloc: Global, image: &[u8], free: &[u16]) -> Result<bool, AllocError> {
    match open_volume(alloc, image)? {
        Some(mut volume) => Ok(are_free(&mut volume, free)),
        None => Ok(false),
    }
}

/// Whether the calls of a part answer and leave what the paper says.
fn holds(alloc: Global, nodes: &mut Nodes, part: &Part) -> Result<bool, AllocError> {
    if !goes(nodes, part.steps) {
        return Ok(false);
    }
    nodes.update_all(50);
    let image = written(alloc, nodes, BLOCKS)?;
    let stand = all_stand(&image, part.inodes) && have_words(&image, part.words);
    Ok(counts(&image, part) && stand && frees(alloc, &image, part.free)?)
}

#[test]
fn forty_calls_leave_what_the_paper_says(rt: HostRuntime) {
    let opened = open(rt.alloc(), &disk()).expect(&rt, "memory");
    let mut nodes = opened.expect(&rt, "a good disk");
    for (k, part) in PARTS.iter().enumerate() {
        assert!(rt;
            holds(rt.alloc(), &mut nodes, part).expect(&rt, "memory"),
            "part {k}"
        );
    }
}
