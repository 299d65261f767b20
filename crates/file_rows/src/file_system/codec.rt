//! An inode, a super-block and an entry in their bytes: docs/manual/disk-image.md, which is file system(V) and
//! directory(V).
use crate::file_system::fixtures::have;
use fs_codec::{
    DirEntry, DiskNode, SuperBlock, read_entry, read_node, read_super, write_entry, write_node,
    write_super,
};

/// Each byte is its place, so each field tells where it stands.
fn places<const N: usize>() -> [u8; N] {
    let mut bytes = [0; N];
    for (i, byte) in bytes.iter_mut().enumerate() {
        *byte = (i % 256) as u8;
    }
    bytes
}

/// The inode of 32 bytes that are their places, of 329,478 bytes.
const INODE: DiskNode = DiskNode {
    mode: 0x0100,
    nlink: 2,
    uid: 3,
    gid: 4,
    size: 0x05_0706,
    addr: [
        0x0908, 0x0b0a, 0x0d0c, 0x0f0e, 0x1110, 0x1312, 0x1514, 0x1716,
    ],
    actime: 0x1918_1b1a,
    modtime: 0x1d1c_1f1e,
};

fn inode_stands_in_its_bytes() -> bool {
    let bytes = places::<32>();
    let mut written = [0; 32];
    write_node(&INODE, &mut written);
    read_node(&bytes) == INODE && written == bytes
}

/// Whether these are the fields of the super-block of 512 bytes that are their places modulo 256: two free numbers and
/// two numbers of inodes are enough, the first and the last.
fn are_of_places(s: &SuperBlock) -> bool {
    let counts = (s.i_size, s.f_size, s.nfree, s.ninode) == (0x0100, 0x0302, 0x0504, 0xcfce);
    let free = (s.free[0], s.free[99]) == (0x0706, 0xcdcc);
    let inode = (s.inode[0], s.inode[99]) == (0xd1d0, 0x9796);
    let flags = (s.flock, s.ilock, s.fmod, s.ronly) == (0x98, 0x99, 0x9a, 0x9b);
    counts && free && inode && flags && s.time == 0x9d9c_9f9e
}

/// The last 96 bytes stay.
fn super_block_stands_in_its_bytes() -> bool {
    let bytes = places::<512>();
    let super_block = read_super(&bytes);
    let mut written = bytes;
    for byte in written.iter_mut().take(416) {
        *byte ^= 0xff;
    }
    write_super(&super_block, &mut written);
    are_of_places(&super_block) && written == bytes
}

/// A super-block with `fsize` 4000, two locks and the time 0x30004, written over bytes that are all ones.
fn super_block_is_written_over_other_bytes() -> bool {
    let super_block = SuperBlock {
        i_size: 60,
        f_size: 4000,
        nfree: 1,
        free: [7; 100],
        ninode: 2,
        inode: [9; 100],
        flock: 1,
        ilock: 2,
        fmod: 0,
        ronly: 0,
        time: 0x3_0004,
    };
    let mut written = [0xff; 512];
    write_super(&super_block, &mut written);
    have(
        &written,
        &[
            (0, b"\x3c\0\xa0\x0f\x01\0\x07\0"),
            (204, b"\x07\0\x02\0\x09\0"),
            (406, b"\x09\0\x01\x02\0\0\x03\0\x04\0\xff\xff"),
        ],
    )
}

/// The entry of 16 bytes that are their places.
const ENTRY: DirEntry = DirEntry {
    ino: 0x0100,
    name: *b"\x02\x03\x04\x05\x06\x07\x08\x09\x0a\x0b\x0c\x0d\x0e\x0f",
};

fn entry_stands_in_its_bytes() -> bool {
    let bytes = places::<16>();
    let mut written = [0; 16];
    write_entry(&ENTRY, &mut written);
    read_entry(&bytes) == ENTRY && written == bytes
}

#[test]
fn fields_stand_in_their_bytes(rt: HostRuntime) {
    assert!(rt; inode_stands_in_its_bytes());
    assert!(rt; super_block_stands_in_its_bytes());
    assert!(rt; super_block_is_written_over_other_bytes());
    assert!(rt; entry_stands_in_its_bytes());
}
