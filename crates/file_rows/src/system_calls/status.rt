//! What is told of files, and what goes to the disk: stat(II), fstat(II), sync(II); `stat1` of Lions' Commentary, `sys3.c`, and
//! `update`, `alloc.c`.
use crate::system_calls::calls::Call::{
    Creat, Dup, Fstat, Link, Mknod, Open, Seek, Stat, Sync, Unlink, Write,
};
use crate::system_calls::calls::Told::{Done, Fails, Gives};
use crate::system_calls::looks::Look::{Disk, Gone, Memory, Refs, Times};
use crate::system_calls::scenes::Step::{Does, Has, Now, Text, User};
use crate::system_calls::scenes::{Scene, failure};
use std::process::Abort;
use v6_base::Errno::{EACCES, EBADF, EFAULT, ENOENT, ENOTDIR};

/// The 36 bytes of `/f`: device 0, inode 3, mode 0100644, two links, user 1, group 2, size 600; no address; and its times.
const F: &[u8; 36] =
    b"\0\0\x03\0\xa4\x81\x02\x01\x02\0\x58\x02\0\0\0\0\0\0\0\0\0\0\0\0\0\0\0\0\x01\0\x02\0\x03\0\x04\0";

const SCENES: [Scene; 7] = [
    Scene {
        name: "36 bytes",
        disk: &[],
        crowd: 0,
        steps: &[
            Does(Stat(b"/f\0", 100), Done),
            Has(Memory(100, F)),
            // The bytes beside them stay.
            Has(Memory(99, b"c")),
            Has(Memory(136, b"\x88\x89")),
            Has(Times(3, 0x0001_0002, 0x0003_0004)),
            Has(Refs(3, 0)),
            // An odd address; a device, whose first address is its number; a file of eight blocks, whose addresses are not told.
            Does(Stat(b"/null\0", 201), Done),
            Has(Memory(
                201,
                b"\0\0\x06\0\xb6\xa1\x01\0\0\0\0\0\x02\x08\0\0\0\0\0\0\0\0\0\0\0\0\0\0\0\0\0\0\0\0\0\0",
            )),
            Does(Stat(b"/rk\0", 300), Done),
            Has(Memory(300, b"\0\0\x08\0\xb6\xe1\x01\0\0\0\0\0\0\0")),
            Does(Stat(b"/big\0", 400), Done),
            Has(Memory(
                400,
                b"\0\0\x0e\0\xb6\x81\x01\x01\x02\0\0\x10\0\0\0\0\0\0\0\0\0\0\0\0\0\0\0\0\0\0\0\0\0\0\0\0",
            )),
            // A file need not be permitted, but its directories must be.
            User(9, 9),
            Does(Stat(b"/c\0", 500), Done),
            Has(Memory(500, b"\0\0\x0b\0\xb0\x81\x01\x01\x02")),
            Does(Stat(b"/x\0", 500), Done),
            Does(Stat(b"/x/.\0", 500), Fails(EACCES)),
            Does(Stat(b"/f/y\0", 500), Fails(ENOTDIR)),
            Does(Stat(b"/nothing\0", 2000), Fails(ENOENT)),
            Does(Stat(b"/f", 500), Fails(EFAULT)),
            Does(Stat(b"\0", 500), Done),
            Has(Memory(500, b"\0\0\x01\0\xed\xc1\x05\0\0\0\x50\x01")),
            // A file without a link goes with the reference of the call.
            Does(Stat(b"/z\0", 500), Done),
            Has(Memory(500, b"\0\0\x12\0\xb6\x81\0\x01\x02")),
            Has(Gone(18)),
        ],
    },
    Scene {
        name: "the number of a block device",
        disk: &[],
        crowd: 0,
        steps: &[
            Does(Mknod(b"/blk\0", 0o060644, 0xffff), Done),
            Does(Stat(b"/blk\0", 300), Done),
            Has(Memory(304, b"\xa4\xe1\x01\0\0\0\0\0\xff\xff\0\0")),
        ],
    },
    Scene {
        // Inode 3 has the size 0x12345, and times with other bytes.
        name: "size and times",
        disk: &[
            (1092, 0x0102),
            (1094, 0x2345),
            (1112, 0x1122),
            (1114, 0x3344),
            (1116, 0x5566),
            (1118, 0x7788),
        ],
        crowd: 0,
        steps: &[
            Does(Stat(b"/f\0", 0), Done),
            Has(Memory(0, b"\0\0\x03\0\xa4\x81\x02\x01\x02\x01\x45\x23\0\0\0\0")),
            Has(Memory(26, b"\0\0\x22\x11\x44\x33\x66\x55\x88\x77\x24")),
        ],
    },
    Scene {
        name: "all of them or none",
        disk: &[],
        crowd: 0,
        steps: &[
            // The data end with byte 1,279, and the stack begins with byte 65,472.
            Does(Stat(b"/f\0", 1245), Fails(EFAULT)),
            Has(Memory(1245, b"\xdd\xde\xdf")),
            Does(Stat(b"/f\0", 65440), Fails(EFAULT)),
            Has(Memory(65472, b"\xc0\xc1\xc2")),
            Does(Stat(b"/f\0", 1244), Done),
            Has(Memory(1244, F)),
            Does(Stat(b"/f\0", 65472), Done),
            Has(Memory(65472, F)),
            // Addresses go round.
            Does(Stat(b"/f\0", 65518), Done),
            Has(Memory(65518, F)),
            Has(Memory(18, b"\x12")),
            Has(Refs(3, 0)),
        ],
    },
    Scene {
        name: "of an open file",
        disk: &[],
        crowd: 0,
        steps: &[
            Does(Fstat(0, 2000), Fails(EBADF)),
            Does(Open(b"/null\0", 0), Gives(0)),
            // Also one that is open neither for reading nor for writing.
            Does(Open(b"/f\0", 3), Gives(1)),
            Does(Dup(1), Gives(2)),
            Does(Fstat(2, 101), Done),
            Has(Memory(101, F)),
            Does(Fstat(1, 1245), Fails(EFAULT)),
            Has(Memory(1245, b"\xdd\xde\xdf")),
            Does(Unlink(b"/f\0"), Done),
            Does(Unlink(b"/d/in\0"), Done),
            Does(Fstat(1, 200), Done),
            Has(Memory(200, b"\0\0\x03\0\xa4\x81\0\x01\x02\0\x58\x02")),
            Has(Memory(228, b"\x01\0\x02\0\x05\0\x06\0")),
            Has(Refs(3, 1)),
        ],
    },
    Scene {
        // Text cannot be written.
        name: "into the text",
        disk: &[],
        crowd: 0,
        steps: &[
            Does(Open(b"/f\0", 0), Gives(0)),
            Text,
            Does(Fstat(0, 0), Fails(EFAULT)),
            Does(Fstat(0, 40), Fails(EFAULT)),
            Does(Fstat(0, 8192), Done),
            Has(Memory(8192, F)),
        ],
    },
    Scene {
        // The super-block alone waits for it: `nfree` at 516, `ninode` at 718, the time at 924. It is written where it has changed.
        name: "sync",
        disk: &[],
        crowd: 0,
        steps: &[
            Does(Sync, Done),
            Has(Disk(924, b"\0\0\0\0")),
            Does(Link(b"/f\0", b"/g\0"), Done),
            Does(Sync, Done),
            Has(Disk(924, b"\0\0\0\0")),
            Does(Creat(b"/new\0", 0), Gives(0)),
            Has(Disk(718, b"\x02\0")),
            Does(Sync, Done),
            Has(Disk(718, b"\x01\0")),
            Has(Disk(924, b"\x05\0\x06\0")),
            Now(7),
            Does(Sync, Done),
            Has(Disk(924, b"\x05\0\x06\0")),
            Does(Write(0, 0, 1), Gives(1)),
            Does(Sync, Done),
            Has(Disk(516, b"\x0a\0")),
            Has(Disk(924, b"\0\0\x07\0")),
            Does(Seek(0, 0, 0), Done),
            Does(Write(0, 0, 1), Gives(1)),
            Now(8),
            Does(Sync, Done),
            Has(Disk(924, b"\0\0\x07\0")),
        ],
    },
];

#[test]
fn files_are_told_of(rt: HostRuntime) {
    assert_eq!(rt; failure(rt.alloc(), &SCENES).expect(&rt, "memory"), None);
}
