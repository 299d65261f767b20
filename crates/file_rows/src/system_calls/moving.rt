//! Bytes that are read and written: read(II), write(II), seek(II); `rdwr` and `seek` of Lions' Commentary, `sys2.c`, and `readi` and
//! `writei`, `rdwri.c`.
use crate::system_calls::calls::Call::{Creat, Dup, Fstat, Open, Read, Seek, Stat, Write};
use crate::system_calls::calls::Told::{Done, Fails, Gives};
use crate::system_calls::looks::Look::{Address, Body, Counts, File, Inode, Memory, Shown, Times};
use crate::system_calls::scenes::Step::{Does, Has, Now, Puts, Text};
use crate::system_calls::scenes::{Scene, failure};
use std::process::Abort;
use v6_base::Errno::{EBADF, EFAULT, EFBIG, ENOSPC};

const T: u32 = 0x0005_0006;

const READS: [Scene; 8] = [
    Scene {
        name: "bytes are read, up to the end of the file",
        disk: &[],
        crowd: 0,
        steps: &[
            Does(Open(b"/f\0", 0), Gives(0)),
            Does(Read(0, 0, 4), Gives(4)),
            Has(Memory(0, b"abcd\x04")),
            Has(File(0, 3, 4, 1)),
            Has(Times(3, T, 0x0003_0004)),
            Does(Read(0, 101, 3), Gives(3)),
            Has(Memory(100, b"defgh")),
            Has(File(0, 3, 7, 1)),
            // Over the end of a block.
            Does(Seek(0, 508, 0), Done),
            Does(Read(0, 0, 8), Gives(8)),
            Has(Memory(0, b"klmnopqr\x08")),
            Has(File(0, 3, 516, 1)),
            // Four bytes are left, and then none.
            Does(Seek(0, 596, 0), Done),
            Does(Read(0, 200, 10), Gives(4)),
            Has(Memory(200, b"wxyz\xcc")),
            Has(File(0, 3, 600, 1)),
            Does(Read(0, 200, 10), Gives(0)),
            Has(File(0, 3, 600, 1)),
            Does(Seek(0, 700, 0), Done),
            Does(Read(0, 200, 10), Gives(0)),
            Has(File(0, 3, 700, 1)),
            // Offsets are unsigned.
            Does(Seek(0, 0, 0), Done),
            Does(Seek(0, 0o177777, 1), Done),
            Does(Read(0, 200, 10), Gives(0)),
            Has(File(0, 3, 4_294_967_295, 1)),
            Has(Memory(200, b"wxyz\xcc")),
            Has(Inode(3, 0o100644, [2, 1, 2], 600)),
            Has(Counts(140, 10)),
        ],
    },
    Scene {
        name: "no bytes set no time, and meet no fault",
        disk: &[],
        crowd: 0,
        steps: &[
            Does(Open(b"/f\0", 0), Gives(0)),
            Does(Read(0, 2000, 0), Gives(0)),
            Has(Times(3, 0x0001_0002, 0x0003_0004)),
            // At the end of the file there is no piece.
            Does(Seek(0, 0, 2), Done),
            Does(Read(0, 2000, 5), Gives(0)),
            Has(Times(3, T, 0x0003_0004)),
        ],
    },
    Scene {
        name: "nothing of a piece that faults is copied",
        disk: &[],
        crowd: 0,
        steps: &[
            Does(Open(b"/f\0", 0), Gives(0)),
            Puts(1278, b"yz"),
            Does(Read(0, 1278, 4), Fails(EFAULT)),
            Has(Memory(1278, b"yz")),
            Has(File(0, 3, 0, 1)),
            Has(Times(3, T, 0x0003_0004)),
            // The first piece ends with its block, and the data end with it: it is done.
            Does(Seek(0, 508, 0), Done),
            Does(Read(0, 1276, 8), Fails(EFAULT)),
            Has(Memory(1276, b"klmn")),
            Has(File(0, 3, 512, 1)),
            Does(Read(0, 65470, 4), Fails(EFAULT)),
            Has(Memory(65472, b"\xc0\xc1")),
            Has(File(0, 3, 512, 1)),
            // Addresses go round.
            Does(Read(0, 65534, 4), Gives(4)),
            Has(Memory(65534, b"opqr")),
            Has(Memory(2, b"\x02")),
            Has(File(0, 3, 516, 1)),
            Text,
            Does(Seek(0, 0, 0), Done),
            Does(Read(0, 10, 4), Fails(EFAULT)),
            Does(Read(0, 8192, 4), Gives(4)),
            Has(Memory(8192, b"abcd")),
        ],
    },
    Scene {
        // The first block of `/f` is a hole.
        name: "a read of a hole takes a block",
        disk: &[(1096, 0)],
        crowd: 0,
        steps: &[
            Does(Open(b"/f\0", 0), Gives(0)),
            Does(Read(0, 2000, 4), Fails(EFAULT)),
            Has(Counts(140, 9)),
            Has(Address(3, 0, 34)),
            Does(Read(0, 0, 4), Gives(4)),
            Has(Memory(0, b"\0\0\0\0\x04")),
            Has(Counts(140, 9)),
            Has(Inode(3, 0o100644, [2, 1, 2], 600)),
            Has(Times(3, T, 0x0003_0004)),
        ],
    },
    Scene {
        // The same, and no block is free.
        name: "a hole without room",
        disk: &[(1096, 0), (516, 1)],
        crowd: 0,
        steps: &[
            Does(Open(b"/f\0", 0), Gives(0)),
            Does(Read(0, 0, 4), Fails(ENOSPC)),
            Has(Memory(0, b"\0\x01\x02\x03")),
            Has(File(0, 3, 0, 1)),
            Does(Read(0, 2000, 4), Fails(ENOSPC)),
            Does(Seek(0, 512, 0), Done),
            Does(Read(0, 0, 4), Gives(4)),
            Has(Memory(0, b"opqr")),
        ],
    },
    Scene {
        // The second block is a hole, and no block is free.
        name: "what was read before the error stays read",
        disk: &[(1098, 0), (516, 1)],
        crowd: 0,
        steps: &[
            Does(Open(b"/f\0", 0), Gives(0)),
            Does(Seek(0, 508, 0), Done),
            Does(Read(0, 0, 8), Fails(ENOSPC)),
            Has(Memory(0, b"klmn\x04")),
            Has(File(0, 3, 512, 1)),
        ],
    },
    Scene {
        name: "a directory is read as a file",
        disk: &[],
        crowd: 0,
        steps: &[
            Does(Open(b"/d\0", 0), Gives(0)),
            Does(Seek(0, 48, 0), Done),
            Does(Read(0, 0, 20), Gives(16)),
            Has(Memory(0, b"\x03\0in\0\0\0\0\0\0\0\0\0\0\0\0\x10")),
            Has(Times(2, T, 0)),
        ],
    },
    Scene {
        name: "not open that way",
        disk: &[],
        crowd: 0,
        steps: &[
            Does(Open(b"/f\0", 0), Gives(0)),
            Does(Open(b"/f\0", 1), Gives(1)),
            Does(Open(b"/f\0", 3), Gives(2)),
            Does(Write(0, 0, 1), Fails(EBADF)),
            Does(Read(1, 0, 1), Fails(EBADF)),
            Does(Read(2, 0, 1), Fails(EBADF)),
            Does(Write(2, 0, 1), Fails(EBADF)),
            // It comes before the address, and also with no byte.
            Does(Write(0, 2000, 1), Fails(EBADF)),
            Does(Write(0, 0, 0), Fails(EBADF)),
            Does(Read(1, 0, 0), Fails(EBADF)),
            Does(Open(b"/null\0", 0), Gives(3)),
            Does(Write(3, 0, 1), Fails(EBADF)),
            Has(Times(3, 0x0001_0002, 0x0003_0004)),
            Has(Times(6, 0, 0)),
        ],
    },
];

const WRITES: [Scene; 9] = [
    Scene {
        // The memory holds `0` at address 48 and `A` at 65.
        name: "bytes are written, and the file grows",
        disk: &[],
        crowd: 0,
        steps: &[
            Does(Open(b"/f\0", 2), Gives(0)),
            Does(Write(0, 48, 4), Gives(4)),
            Has(Body(3, 0, b"0123efgh")),
            Has(File(0, 3, 4, 1)),
            Has(Times(3, T, T)),
            Has(Inode(3, 0o100644, [2, 1, 2], 600)),
            Does(Dup(0), Gives(1)),
            Does(Seek(0, 510, 0), Done),
            Does(Write(1, 48, 4), Gives(4)),
            Has(Body(3, 508, b"kl0123qr")),
            Has(File(0, 3, 514, 2)),
            Does(Seek(0, 0, 2), Done),
            Does(Write(0, 65, 3), Gives(3)),
            Has(Inode(3, 0o100644, [2, 1, 2], 603)),
            // The bytes behind the old end come to light: one that stood on the disk, and zeros.
            Does(Seek(0, 5, 2), Done),
            Does(Write(0, 65, 1), Gives(1)),
            Has(Inode(3, 0o100644, [2, 1, 2], 609)),
            Has(Body(3, 596, b"wxyzABC!\0\0\0\0A\0\0\0")),
            Has(File(0, 3, 609, 2)),
            Has(Counts(140, 10)),
        ],
    },
    Scene {
        // Blocks 34, 33, 32 and 31 are taken in this order.
        name: "blocks are taken as they are written",
        disk: &[],
        crowd: 0,
        steps: &[
            Does(Open(b"/a\0", 1), Gives(0)),
            Does(Write(0, 0, 600), Gives(600)),
            Has(Inode(9, 0o100066, [1, 1, 2], 600)),
            Has(Address(9, 0, 34)),
            Has(Address(9, 1, 33)),
            Has(Body(9, 508, b"\xfc\xfd\xfe\xff\0\x01\x02\x03")),
            Has(File(0, 9, 600, 1)),
            Does(Seek(0, 2, 3), Done),
            Does(Write(0, 65, 1), Gives(1)),
            Does(Seek(0, 5, 3), Done),
            Does(Write(0, 66, 1), Gives(1)),
            Has(Inode(9, 0o100066, [1, 1, 2], 2561)),
            Has(Address(9, 2, 32)),
            Has(Address(9, 3, 0)),
            Has(Address(9, 5, 31)),
            Has(Counts(140, 6)),
        ],
    },
    Scene {
        name: "no bytes are written",
        disk: &[],
        crowd: 0,
        steps: &[
            Does(Open(b"/a\0", 1), Gives(0)),
            Does(Write(0, 2000, 0), Gives(0)),
            Does(Seek(0, 100, 0), Done),
            Does(Write(0, 0, 0), Gives(0)),
            Has(Inode(9, 0o100066, [1, 1, 2], 0)),
            Does(Seek(0, 0o177777, 3), Done),
            Does(Write(0, 0, 0), Gives(0)),
            Has(Times(9, 0, 0)),
            Has(Counts(140, 10)),
        ],
    },
    Scene {
        name: "nothing of a piece that faults is written",
        disk: &[],
        crowd: 0,
        steps: &[
            Does(Open(b"/a\0", 1), Gives(0)),
            Puts(1278, b"yz"),
            // Its block is taken first.
            Does(Write(0, 1278, 4), Fails(EFAULT)),
            Has(Inode(9, 0o100066, [1, 1, 2], 0)),
            Has(File(0, 9, 0, 1)),
            Has(Times(9, T, T)),
            Has(Counts(140, 9)),
            // The first piece is the two bytes up to 512.
            Does(Seek(0, 510, 0), Done),
            Does(Write(0, 1278, 4), Fails(EFAULT)),
            Has(Inode(9, 0o100066, [1, 1, 2], 512)),
            Has(Body(9, 508, b"\0\0yz")),
            Has(File(0, 9, 512, 1)),
            Has(Counts(140, 8)),
            // Addresses go round; text can be read.
            Does(Write(0, 65534, 4), Gives(4)),
            Has(Body(9, 510, b"yz\xfe\xff\0\x01")),
            Text,
            Does(Write(0, 60, 2), Gives(2)),
            Has(Inode(9, 0o100066, [1, 1, 2], 518)),
            Does(Write(0, 62, 4), Fails(EFAULT)),
            Has(Inode(9, 0o100066, [1, 1, 2], 518)),
        ],
    },
    Scene {
        // Byte 16,777,215 is one too far, in block 32767 with byte 16,776,704 as its first.
        name: "the greatest size",
        disk: &[],
        crowd: 0,
        steps: &[
            Does(Open(b"/a\0", 1), Gives(0)),
            Does(Seek(0, 0o100000, 3), Done),
            Has(File(0, 9, 16_777_216, 1)),
            Does(Write(0, 0, 1), Fails(EFBIG)),
            Has(File(0, 9, 16_777_216, 1)),
            Has(Inode(9, 0o100066, [1, 1, 2], 0)),
            Has(Times(9, T, T)),
            // It comes before the block and the address.
            Does(Write(0, 2000, 1), Fails(EFBIG)),
            Does(Seek(0, 0o177776, 1), Done),
            Does(Write(0, 0, 2), Fails(EFBIG)),
            Has(Counts(140, 10)),
            // The indirect block of the conversion, the double one, indirect block 127, and the block.
            Does(Write(0, 65, 1), Gives(1)),
            Has(Inode(9, 0o110066, [1, 1, 2], 16_777_215)),
            Has(Counts(140, 6)),
            Does(Write(0, 65, 1), Fails(EFBIG)),
            Has(File(0, 9, 16_777_215, 1)),
            // The second of two pieces.
            Does(Seek(0, 0o77777, 3), Done),
            Does(Seek(0, 0o177777, 1), Done),
            Has(File(0, 9, 16_776_703, 1)),
            Does(Write(0, 66, 513), Fails(EFBIG)),
            Has(File(0, 9, 16_776_704, 1)),
            Has(Body(9, 16_776_703, b"B\0\0\0")),
            Has(Counts(140, 5)),
            Does(Seek(0, 0, 0), Done),
            Does(Seek(0, 0o177777, 1), Done),
            Does(Write(0, 65, 1), Fails(EFBIG)),
            Has(File(0, 9, 4_294_967_295, 1)),
        ],
    },
    Scene {
        // Block 25 alone is free. `/big` has its eight blocks, and a ninth wants an indirect block first, which stays.
        name: "the ninth block, with room for one",
        disk: &[(516, 2)],
        crowd: 0,
        steps: &[
            Does(Open(b"/big\0", 2), Gives(0)),
            Does(Seek(0, 8, 3), Done),
            Does(Write(0, 0, 1), Fails(ENOSPC)),
            Has(Inode(14, 0o110666, [1, 1, 2], 4096)),
            Has(Address(14, 0, 25)),
            Has(Address(14, 1, 0)),
            Has(Counts(140, 0)),
            Has(File(0, 14, 4096, 1)),
            Has(Body(14, 0, b"A")),
            Has(Body(14, 512, b"B")),
            Has(Body(14, 4080, b"\0\0\0\0\0\0\0\0\0\0\0\0\0\0\0.")),
            Does(Stat(b"/big\0", 100), Done),
            Has(Memory(100, b"\0\0\x0e\0\xb6\x91\x01\x01\x02\0\0\x10")),
        ],
    },
    Scene {
        name: "the first of two blocks",
        disk: &[(516, 2)],
        crowd: 0,
        steps: &[
            Does(Open(b"/a\0", 1), Gives(0)),
            Does(Write(0, 0, 600), Fails(ENOSPC)),
            Has(File(0, 9, 512, 1)),
            Has(Inode(9, 0o100066, [1, 1, 2], 512)),
            Has(Body(9, 508, b"\xfc\xfd\xfe\xff\0")),
            Has(Counts(140, 0)),
            // Room comes before the address.
            Does(Write(0, 2000, 1), Fails(ENOSPC)),
        ],
    },
    Scene {
        // Taken are: the first indirect block of the conversion, indirect block 6, and block 1791; the double indirect block, indirect
        // block 7 and block 1792; indirect block 127 and block 32767. The size is 512 * 32767 + 1.
        name: "one byte in three far blocks of a new file",
        disk: &[],
        crowd: 0,
        steps: &[
            Does(Creat(b"/new\0", 0o666), Gives(0)),
            Does(Seek(0, 1791, 3), Done),
            Does(Write(0, 65, 1), Gives(1)),
            Has(Counts(141, 7)),
            Does(Seek(0, 1792, 3), Done),
            Does(Write(0, 66, 1), Gives(1)),
            Has(Counts(141, 4)),
            Does(Seek(0, 32767, 3), Done),
            Does(Write(0, 67, 1), Gives(1)),
            Has(Counts(141, 2)),
            Has(Inode(16, 0o110666, [1, 0, 0], 16_776_705)),
            Has(Body(16, 916_992, b"A\0\0\0")),
            Has(Body(16, 917_504, b"B\0\0\0")),
            Has(Body(16, 16_776_704, b"C\0\0\0")),
            Does(Seek(0, 32768, 3), Done),
            Does(Write(0, 68, 1), Fails(EFBIG)),
            Has(Inode(16, 0o110666, [1, 0, 0], 16_776_705)),
            Has(Counts(141, 2)),
            // 16,776,705 is 255 * 65,536 + 65,025, which is 0xfe01.
            Does(Fstat(0, 100), Done),
            Has(Memory(100, b"\0\0\x10\0\xb6\x91\x01\0\0\xff\x01\xfe\0\0")),
        ],
    },
    Scene {
        name: "null gives nothing and takes all",
        disk: &[],
        crowd: 0,
        steps: &[
            Does(Open(b"/null\0", 2), Gives(0)),
            Does(Read(0, 2000, 5), Gives(0)),
            Has(Times(6, T, 0)),
            Now(9),
            Does(Write(0, 0, 5), Gives(5)),
            Has(Times(6, 9, 9)),
            Does(Write(0, 2000, 40000), Gives(40000)),
            Has(File(0, 6, 0, 1)),
            Has(Shown(b"", 0)),
            Now(11),
            Does(Read(0, 0, 0), Gives(0)),
            Does(Write(0, 0, 0), Gives(0)),
            Has(Times(6, 9, 9)),
            Has(Inode(6, 0o120666, [1, 0, 0], 0)),
            Has(Address(6, 0, 2050)),
            Has(Counts(140, 10)),
        ],
    },
];

const SEEKS: [Scene; 1] = [Scene {
    name: "places",
    disk: &[],
    crowd: 0,
    steps: &[
        Does(Open(b"/f\0", 0), Gives(0)),
        // From the beginning, without a sign.
        Does(Seek(0, 100, 0), Done),
        Has(File(0, 3, 100, 1)),
        Does(Seek(0, 65535, 0), Done),
        Has(File(0, 3, 65_535, 1)),
        // From the place, with a sign.
        Does(Seek(0, 1, 1), Done),
        Has(File(0, 3, 65_536, 1)),
        Does(Seek(0, 65535, 1), Done),
        Has(File(0, 3, 65_535, 1)),
        Does(Seek(0, 32767, 1), Done),
        Has(File(0, 3, 98_302, 1)),
        Does(Seek(0, 32768, 1), Done),
        Has(File(0, 3, 65_534, 1)),
        // From the end; 600 - 32,768 + 2^32.
        Does(Seek(0, 7, 2), Done),
        Has(File(0, 3, 607, 1)),
        Does(Seek(0, 65535, 2), Done),
        Has(File(0, 3, 599, 1)),
        Does(Seek(0, 32768, 2), Done),
        Has(File(0, 3, 4_294_935_128, 1)),
        // In blocks.
        Does(Seek(0, 3, 3), Done),
        Has(File(0, 3, 1_536, 1)),
        Does(Seek(0, 65535, 3), Done),
        Has(File(0, 3, 33_553_920, 1)),
        Does(Seek(0, 65535, 4), Done),
        Has(File(0, 3, 33_553_408, 1)),
        Does(Seek(0, 2, 4), Done),
        Has(File(0, 3, 33_554_432, 1)),
        Does(Seek(0, 2, 5), Done),
        Has(File(0, 3, 1_624, 1)),
        // 600 - 1,024 + 2^32, and 1,000 more, modulo 2^32.
        Does(Seek(0, 65534, 5), Done),
        Has(File(0, 3, 4_294_966_872, 1)),
        Does(Seek(0, 1000, 1), Done),
        Has(File(0, 3, 576, 1)),
        // Greater modes are as 5, and negative ones as 2.
        Does(Seek(0, 1, 6), Done),
        Has(File(0, 3, 1_112, 1)),
        Does(Seek(0, 2, 7), Done),
        Has(File(0, 3, 1_624, 1)),
        Does(Seek(0, 3, 32767), Done),
        Has(File(0, 3, 2_136, 1)),
        Does(Seek(0, 4, 65535), Done),
        Has(File(0, 3, 604, 1)),
        Does(Seek(0, 5, 32768), Done),
        Has(File(0, 3, 605, 1)),
        Does(Seek(0, 0, 0), Done),
        // 2^32 - 512 * 32,768, and 600 + 512 * 32,767.
        Does(Seek(0, 32768, 4), Done),
        Has(File(0, 3, 4_278_190_080, 1)),
        Does(Seek(0, 32767, 5), Done),
        Has(File(0, 3, 16_777_304, 1)),
        Has(Times(3, 0x0001_0002, 0x0003_0004)),
        Has(Inode(3, 0o100644, [2, 1, 2], 600)),
        // Also of a device, of which nothing is read or written.
        Does(Open(b"/null\0", 3), Gives(1)),
        Does(Seek(1, 5, 2), Done),
        Has(File(1, 6, 5, 1)),
    ],
}];

#[test]
fn bytes_are_read(rt: HostRuntime) {
    assert_eq!(rt; failure(rt.alloc(), &READS).expect(&rt, "memory"), None);
}

#[test]
fn bytes_are_written(rt: HostRuntime) {
    assert_eq!(rt; failure(rt.alloc(), &WRITES).expect(&rt, "memory"), None);
}

#[test]
fn places_are_sought(rt: HostRuntime) {
    assert_eq!(rt; failure(rt.alloc(), &SEEKS).expect(&rt, "memory"), None);
}
