//! The small disk on which every scene begins: file system(V).
use crate::file_system::fixtures::{put, put_words};

/// How many blocks the disk has, and how many bytes.
pub const BLOCKS: u16 = 40;

pub const BYTES: usize = 20480;

/// The super-block. Blocks 2 to 10 hold 144 inodes, and the file system ends before block 40. `nfree` is at 516 and its list from
/// 518 on: first 0, then the ten free blocks 25 to 34, of which 34 is taken first. `ninode` is at 718 and its list from 720 on: 16 is
/// drawn first, then 21. The time, high word first, is at 924.
const SUPER: [(usize, u16); 17] = [
    (512, 9),
    (514, 40),
    (516, 11),
    (520, 25),
    (522, 26),
    (524, 27),
    (526, 28),
    (528, 29),
    (530, 30),
    (532, 31),
    (534, 32),
    (536, 33),
    (538, 34),
    (718, 2),
    (720, 21),
    (722, 16),
    (924, 0),
];

/// An inode: its number; mode; links, owner and group; size; and addresses.
type Inode = (u16, u16, [u8; 3], u16, &'static [u16]);

/// Inodes 22 to 144 are plain files of user 0 with one link, and 15, 16, 20 and 21 are free: 140 are used. Inode i begins at
/// 992 + 32 * i.
const INODES: [Inode; 18] = [
    (1, 0o140755, [5, 0, 0], 336, &[11]),
    // User 1's directory, which the others may read and search.
    (2, 0o140755, [2, 1, 2], 64, &[12]),
    (3, 0o100644, [2, 1, 2], 600, &[13, 14]),
    // Nobody may search this directory.
    (4, 0o140600, [2, 1, 2], 32, &[15]),
    // The console, which the others may only write; null; a device that cannot be opened; a block device.
    (5, 0o120622, [1, 0, 0], 0, &[0]),
    (6, 0o120666, [1, 0, 0], 0, &[2050]),
    (7, 0o120600, [1, 0, 0], 0, &[2049]),
    (8, 0o160666, [1, 0, 0], 0, &[0]),
    // Files of user 1 and group 2 that one class may not read or write: the owner, the group, and the others.
    (9, 0o100066, [1, 1, 2], 0, &[]),
    (10, 0o100606, [1, 1, 2], 0, &[]),
    (11, 0o100660, [1, 1, 2], 0, &[]),
    (12, 0o100644, [126, 1, 2], 0, &[]),
    (13, 0o140755, [127, 1, 2], 32, &[16]),
    (
        14,
        0o100666,
        [1, 1, 2],
        4096,
        &[17, 18, 19, 20, 21, 22, 23, 24],
    ),
    // A directory of 32 empty entries, of which no block is held, and in which everybody may write.
    (17, 0o140777, [2, 1, 2], 512, &[]),
    // A file without a link, and a second name of the console.
    (18, 0o100666, [0, 1, 2], 0, &[]),
    (19, 0o120666, [1, 0, 0], 0, &[0]),
    (22, 0o100644, [1, 0, 0], 0, &[]),
];

/// An entry of a directory: its place on the disk, its inode and its name.
type Entry = (usize, u16, &'static [u8]);

/// The root is block 11, from byte 5632 on; inode 2 is block 12, inode 4 block 15, inode 13 block 16. Inode 20 is free, and there
/// is no inode 200.
const ENTRIES: [Entry; 29] = [
    (5632, 1, b"."),
    (5648, 1, b".."),
    (5664, 2, b"d"),
    (5680, 3, b"f"),
    (5696, 4, b"x"),
    (5712, 5, b"tty"),
    (5728, 6, b"null"),
    (5744, 7, b"mem"),
    (5760, 8, b"rk"),
    (5776, 9, b"a"),
    (5792, 10, b"b"),
    (5808, 11, b"c"),
    (5824, 12, b"many"),
    (5840, 13, b"e"),
    (5856, 14, b"big"),
    (5872, 17, b"h"),
    (5888, 18, b"z"),
    (5904, 19, b"cons"),
    (5920, 20, b"free"),
    (5936, 200, b"far"),
    (5952, 22, b"abcdefghijklmn"),
    (6144, 2, b"."),
    (6160, 1, b".."),
    (6176, 0, b"gone"),
    (6192, 3, b"in"),
    (7680, 4, b"."),
    (7696, 1, b".."),
    (8192, 13, b"."),
    (8208, 1, b".."),
];

/// Bytes of inode 3, whose blocks begin at 6656 and 7168, and which was read last at the time 0x10002 and written at 0x30004. Its
/// first block begins with `abcdefgh` and ends with `klmn`; its second begins with `opqr`, and the file ends with its bytes 84
/// to 87, `wxyz`, behind which stand bytes that are none of the file's. Each block of inode 14 begins with a letter of its own.
const TEXTS: [(usize, &[u8]); 14] = [
    (1112, b"\x01\0\x02\0\x03\0\x04\0"),
    (6656, b"abcdefgh"),
    (7164, b"klmn"),
    (7168, b"opqr"),
    (7252, b"wxyz!!!!"),
    (8704, b"A"),
    (9216, b"B"),
    (9728, b"C"),
    (10240, b"D"),
    (10752, b"E"),
    (11264, b"F"),
    (11776, b"G"),
    (12288, b"H"),
    (12799, b"."),
];

fn put_inode(bytes: &mut [u8], inode: &Inode) {
    let (ino, mode, owners, size, addresses) = inode;
    let at = 992_usize.wrapping_add(32 * usize::from(*ino));
    put_words(bytes, &[(at, *mode), (at.wrapping_add(6), *size)]);
    put(bytes, &[(at.wrapping_add(2), owners.as_slice())]);
    for (k, address) in addresses.iter().enumerate() {
        let place = at.wrapping_add(8).wrapping_add(k.wrapping_mul(2));
        put_words(bytes, &[(place, *address)]);
    }
}

fn put_crowd(bytes: &mut [u8]) {
    for ino in 22..145 {
        put_inode(bytes, &(ino, 0o100644, [1, 0, 0], 0, &[]));
    }
}

/// The bytes of the disk, with some of its words changed.
pub fn image(changes: &[(usize, u16)]) -> [u8; BYTES] {
    let mut bytes = [0; BYTES];
    put_words(&mut bytes, &SUPER);
    put_crowd(&mut bytes);
    for inode in &INODES {
        put_inode(&mut bytes, inode);
    }
    for (at, ino, name) in ENTRIES {
        put_words(&mut bytes, &[(at, ino)]);
        put(&mut bytes, &[(at.wrapping_add(2), name)]);
    }
    for (at, text) in TEXTS {
        put(&mut bytes, &[(at, text)]);
    }
    put_words(&mut bytes, changes);
    bytes
}
