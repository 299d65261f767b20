//! Faults and counts of small disks: docs/manual/disk-image.md, which is file system(V), and the order of its faults.
use crate::file_system::fixtures::{Word, put_words};
use fs_check::{ImageFault, accept, accept_second, tally};

/// Eight blocks: inode 1 is a directory that holds block 6, and blocks 4 and 5 are free. `isize` is at 512, `fsize` at
/// 514, `nfree` at 516 and its numbers from 518 on, `ninode` at 718. Inode 1 is at 1024 and inode 2 at 1056, with the
/// mode first and the addresses from the ninth byte on. Block n begins at 512 * n.
static SMALL_DISK: [Word; 7] = [
    (512, 1),
    (514, 8),
    (516, 3),
    (520, 5),
    (522, 4),
    (1024, 0o140755),
    (1032, 6),
];

/// Words that are put at places of the small disk, and its used inodes and free blocks then, or its first fault.
static DISKS: [(&[Word], Result<(u16, u16), ImageFault>); 63] = [
    // As it is.
    (&[], Ok((1, 2))),
    // The super-block: one that is just good, then one that isn't.
    (&[(514, 3), (516, 0), (1032, 0)], Ok((1, 0))),
    (&[(514, 2), (516, 0), (1032, 0)], Err(ImageFault::BadSuper)),
    (&[(512, 0)], Err(ImageFault::BadSuper)),
    (&[(516, 100)], Ok((1, 0))),
    (&[(516, 101)], Err(ImageFault::BadSuper)),
    (&[(718, 100)], Ok((1, 2))),
    (&[(718, 101)], Err(ImageFault::BadSuper)),
    (&[(514, 4000)], Ok((1, 2))),
    (&[(514, 4001)], Err(ImageFault::NoSwap(4001))),
    (&[(514, 4001), (516, 101)], Err(ImageFault::BadSuper)),
    // The walk of the free list: numbers that are no data block's, counts, and where it ends.
    (&[(522, 2)], Err(ImageFault::FreeOutside(2))),
    (&[(522, 3)], Ok((1, 2))),
    (&[(522, 7)], Ok((1, 2))),
    (&[(522, 8)], Err(ImageFault::FreeOutside(8))),
    (&[(522, 9), (1032, 2)], Err(ImageFault::FreeOutside(9))),
    (&[(516, 0)], Ok((1, 0))),
    (&[(520, 0)], Ok((1, 1))),
    (&[(518, 7), (3584, 0)], Ok((1, 3))),
    (&[(518, 7), (3584, 2), (3588, 3)], Ok((1, 4))),
    (&[(518, 7), (3584, 2), (3586, 3)], Ok((1, 3))),
    (&[(518, 7), (3584, 100)], Ok((1, 3))),
    (&[(518, 7), (3584, 101)], Err(ImageFault::FreeCount(7))),
    (
        &[(516, 1), (518, 5), (2560, 101)],
        Err(ImageFault::FreeCount(5)),
    ),
    // The addresses of inodes: of a directory, of devices, of a free inode, of one that is in use by its mode alone, of
    // the last.
    (&[(1032, 2)], Err(ImageFault::NodeOutside(1, 2))),
    (&[(1032, 3)], Ok((1, 2))),
    (&[(1032, 7)], Ok((1, 2))),
    (&[(1032, 8)], Err(ImageFault::NodeOutside(1, 8))),
    (&[(1046, 9)], Err(ImageFault::NodeOutside(1, 9))),
    (&[(1032, 9), (1034, 8)], Err(ImageFault::NodeOutside(1, 8))),
    (
        &[(1032, 9), (1056, 0o100644), (1064, 2)],
        Err(ImageFault::NodeOutside(1, 9)),
    ),
    (&[(1056, 0o120666), (1064, 9)], Ok((2, 2))),
    (&[(1056, 0o160666), (1064, 9)], Ok((2, 2))),
    (&[(1064, 9)], Ok((1, 2))),
    (
        &[(1056, 0o644), (1064, 9)],
        Err(ImageFault::NodeOutside(2, 9)),
    ),
    (
        &[(1504, 0o100644), (1512, 9)],
        Err(ImageFault::NodeOutside(16, 9)),
    ),
    // The addresses of large files: in indirect blocks, in the double indirect block, and the least of them.
    (&[(1024, 0o150755)], Ok((1, 2))),
    (
        &[(1024, 0o150755), (1032, 9)],
        Err(ImageFault::NodeOutside(1, 9)),
    ),
    (
        &[(1024, 0o150755), (1032, 20), (1046, 9)],
        Err(ImageFault::NodeOutside(1, 9)),
    ),
    (
        &[(1024, 0o150755), (3072, 9)],
        Err(ImageFault::NodeOutside(1, 9)),
    ),
    (
        &[(1024, 0o150755), (3582, 9)],
        Err(ImageFault::NodeOutside(1, 9)),
    ),
    (
        &[(1024, 0o150755), (1046, 3), (1536, 9)],
        Err(ImageFault::NodeOutside(1, 9)),
    ),
    (
        &[
            (1024, 0o150755),
            (1046, 3),
            (1536, 7),
            (4094, 9),
            (4092, 10),
        ],
        Err(ImageFault::NodeOutside(1, 9)),
    ),
    // Blocks that come twice: on the free list, there and in an inode, in inodes; at each depth; and the least of them.
    (&[(520, 4)], Err(ImageFault::BlockTwice(4))),
    (
        &[(518, 7), (3584, 1), (3586, 4), (1032, 2)],
        Err(ImageFault::NodeOutside(1, 2)),
    ),
    (
        &[(518, 7), (3584, 1), (3586, 4), (1034, 6)],
        Err(ImageFault::BlockTwice(4)),
    ),
    (&[(1032, 4)], Err(ImageFault::BlockTwice(4))),
    (&[(1032, 5), (1034, 4)], Err(ImageFault::BlockTwice(4))),
    (&[(1034, 6)], Err(ImageFault::BlockTwice(6))),
    (&[(1046, 6)], Err(ImageFault::BlockTwice(6))),
    (
        &[(1056, 0o100644), (1064, 6)],
        Err(ImageFault::BlockTwice(6)),
    ),
    (&[(1032, 7), (1034, 7)], Err(ImageFault::BlockTwice(7))),
    (
        &[(1024, 0o150755), (1034, 6)],
        Err(ImageFault::BlockTwice(6)),
    ),
    (
        &[(1024, 0o150755), (3072, 4)],
        Err(ImageFault::BlockTwice(4)),
    ),
    (
        &[(1024, 0o150755), (3072, 7), (3074, 7)],
        Err(ImageFault::BlockTwice(7)),
    ),
    (
        &[
            (1024, 0o150755),
            (1032, 0),
            (1046, 6),
            (3072, 7),
            (3584, 3),
            (3586, 3),
        ],
        Err(ImageFault::BlockTwice(3)),
    ),
    (
        &[(1024, 0o150755), (1032, 0), (1046, 6), (3072, 7), (3074, 7)],
        Err(ImageFault::BlockTwice(7)),
    ),
    // The root.
    (&[(1024, 0)], Err(ImageFault::NoRoot)),
    (&[(1024, 0o040755)], Ok((1, 2))),
    (&[(1024, 0o100755)], Err(ImageFault::NoRoot)),
    (&[(1024, 0o120755)], Err(ImageFault::NoRoot)),
    (&[(1024, 0o160755)], Err(ImageFault::NoRoot)),
    (
        &[(1024, 0o100755), (1034, 6)],
        Err(ImageFault::BlockTwice(6)),
    ),
];

/// The same of a second disk, which has no swap area: what comes of the words, or nothing.
static SECOND_DISKS: [(&[Word], Option<ImageFault>); 8] = [
    (&[], None),
    (&[(514, 4000)], None),
    (&[(514, 4001)], None),
    (&[(514, 4872)], None),
    (&[(514, 4873)], Some(ImageFault::NoSwap(4873))),
    (&[(514, 4873), (516, 101)], Some(ImageFault::BadSuper)),
    // A free block, and one of a file, where the root's disk has its swap area.
    (&[(514, 4872), (522, 4871), (1032, 4000)], None),
    (
        &[(514, 4872), (522, 4872)],
        Some(ImageFault::FreeOutside(4872)),
    ),
];

/// The small disk with these words.
fn small_disk(words: &[Word]) -> [u8; 4096] {
    let mut disk = [0; 4096];
    put_words(&mut disk, &SMALL_DISK);
    put_words(&mut disk, words);
    disk
}

fn gives(words: &[Word], found: Result<(u16, u16), ImageFault>) -> bool {
    let disk = small_disk(words);
    if let Err(fault) = accept(&disk) {
        return found == Err(fault);
    }
    let counts = tally(&disk);
    found == Ok((counts.nodes, counts.free))
}

#[test]
fn small_disks_have_their_first_fault_or_their_counts(rt: HostRuntime) {
    for (k, (words, found)) in DISKS.iter().enumerate() {
        assert!(rt; gives(words, *found), "row {k}");
    }
}

fn second_gives(words: &[Word], found: Option<ImageFault>) -> bool {
    match accept_second(&small_disk(words)) {
        Ok(()) => found.is_none(),
        Err(fault) => found == Some(fault),
    }
}

#[test]
fn second_disks_may_be_full_to_their_end(rt: HostRuntime) {
    for (k, (words, found)) in SECOND_DISKS.iter().enumerate() {
        assert!(rt; second_gives(words, *found), "row {k}");
    }
}
