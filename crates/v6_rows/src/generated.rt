//! Bytes of the disks that `make` builds, worked by hand from docs/manual/generator.md.
use make_image::build;
use run_fixtures::{Piece, have};
use std::alloc::{AllocError, Global};
use std::test::Fail;

/// The number of a disk, and some of its bytes.
const DISKS: [(u32, &[Piece<'static>]); 5] = [
    (0, &NO_FILES),
    (12, &TWELVE_FILES),
    (38, &THIRTY_EIGHT_FILES),
    (1_000_001, &ONE_FILE),
    (4_294_967_295, &NINETY_FIVE_FILES),
];

const NO_FILES: [Piece<'static>; 6] = [
    // 34 free blocks in the list, the last of them 67; after it what stood there before.
    (516, b"\x22\0\x64\0"),
    (584, b"\x43\0\xa6\0"),
    // The root's entry `etc`, and the end of `/u` after its entry `..`.
    (31_776, b"\x02\0etc\0"),
    (33_296, b"\x01\0..\0\0\0\0\0\0\0\0\0\0\0\0\0\0"),
    // The header and the texts of `/etc/init`.
    (33_792, b"\x07\x01\x6e\0\0\0\x64\0"),
    (33_900, b"/dev/tty8\0sum \0\n% "),
];

const TWELVE_FILES: [Piece<'static>; 18] = [
    // 60 blocks of inodes, 4,000 blocks, 92 free blocks in the list, from 200 down to 109; after them what stood there before.
    (512, b"\x3c\0\xa0\x0f\x5c\0\xc8\0"),
    (700, b"\x6d\0\xd0\0"),
    // Inode 1: mode and links. Inodes 5 and 6: mode; device 2050. Inode 7: mode.
    (1024, b"\xed\xc1\x05"),
    (1152, b"\xb6\xa1"),
    (1192, b"\x02\x08"),
    (1216, b"\xed\x81"),
    // Inode 9, which is `/u/f01`: mode, links, 1,826 bytes, blocks 70 to 73. Inode 13, which is `/u/f05`: 150 bytes.
    (1280, b"\xa4\x81\x01\0\0\0\x22\x07\x46\0\x47\0"),
    (1414, b"\x96\0"),
    // The entry `..` of `/etc`, and that of `/u/f01`.
    (32_272, b"\x01\0.."),
    (33_328, b"\x09\0f01"),
    // The word 060103 of `/etc/init`, at 026.
    (33_830, b"\x43\x60"),
    // `/u/f01`: its first bytes, and its last with what fills up the block.
    (35_840, b"\x0d\x0e"),
    (37_664, b"\x2d\x2e\0"),
    // Blocks 200 and 3900 hold full lists, 109 and 3999 none.
    (102_400, b"\x64\0\x2c\x01\x2b\x01"),
    (102_600, b"\xc9\0\0\0"),
    (1_996_800, b"\x64\0\0\0\x9f\x0f"),
    (55_808, b"\0\0\0\0"),
    (2_047_488, b"\0\0\0\0"),
];

const THIRTY_EIGHT_FILES: [Piece<'static>; 3] = [
    // Block 200 was freed last, into a list that was full: it begins anew.
    (516, b"\x01\0\xc8\0\x2b\x01"),
    (102_400, b"\x64\0\x2c\x01\x2b\x01"),
    // `/u` has forty entries, in two blocks: its size, and its addresses.
    (1126, b"\x80\x02\x41\0\x42\0\0\0"),
];

const ONE_FILE: [Piece<'static>; 3] = [
    // `/u/f00`: 1,428 bytes, of which the first is 1,000,001 mod 256.
    (1254, b"\x94\x05"),
    (34_304, b"\x41\x42\x43"),
    (35_731, b"\xd4\0"),
];

const NINETY_FIVE_FILES: [Piece<'static>; 2] = [
    // `/u/f00`: 946 bytes from block 70 on, of which the first is 255.
    (1254, b"\xb2\x03\x46\0\x47\0\0\0"),
    (35_840, b"\xff\x00\x01"),
];

fn has(alloc: Global, number: u32, pieces: &[Piece<'_>]) -> Result<bool, AllocError> {
    let image = build(alloc, number)?;
    Ok(image.len() == 2_048_000 && have(&image, pieces))
}

#[test]
fn made_disks_have_the_generators_bytes(rt: HostRuntime) -> Result<(), Fail> {
    for (number, pieces) in DISKS {
        assert!(rt; has(rt.alloc(), number, pieces)?, "disk {number}");
    }
    Ok(())
}
