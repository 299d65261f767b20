//! Directories of processes, permissions and owners: chdir(II), chmod(II), chown(II); Lions' Commentary, `sys4.c`, and `owner` and
//! `access` in `fio.c`.
use crate::system_calls::calls::Call::{Chdir, Chmod, Chown, Mknod, Open};
use crate::system_calls::calls::Told::{Done, Fails, Gives};
use crate::system_calls::looks::Look::{Address, Body, Directory, File, Inode, Refs, Times};
use crate::system_calls::scenes::Step::{Does, Has, User};
use crate::system_calls::scenes::{Scene, failure};
use std::process::Abort;
use v6_base::Errno::{EACCES, EFAULT, ENOENT, ENOTDIR, EPERM};

const T: u32 = 0x0005_0006;

const SCENES: [Scene; 7] = [
    Scene {
        name: "a directory is entered",
        disk: &[],
        crowd: 0,
        steps: &[
            Does(Chdir(b"/d\0"), Done),
            Has(Directory(2)),
            Has(Refs(2, 1)),
            Has(Refs(1, 1)),
            Does(Open(b"in\0", 0), Gives(0)),
            Has(File(0, 3, 0, 1)),
            Does(Open(b"f\0", 0), Fails(ENOENT)),
            Does(Mknod(b"made\0", 0, 0), Done),
            Has(Body(2, 32, b"\x10\0made\0")),
            Does(Chdir(b".\0"), Done),
            Has(Directory(2)),
            Has(Refs(2, 1)),
            Does(Chdir(b"\0"), Done),
            Has(Refs(2, 1)),
            Does(Chdir(b"../h\0"), Done),
            Has(Directory(17)),
            Has(Refs(2, 0)),
            Has(Refs(17, 1)),
            Does(Chdir(b"/\0"), Done),
            Has(Directory(1)),
            Has(Refs(1, 2)),
            Has(Refs(17, 0)),
            Has(Times(17, 0, 0)),
        ],
    },
    Scene {
        name: "what cannot be entered",
        disk: &[],
        crowd: 0,
        steps: &[
            User(9, 9),
            // Nobody may execute `/f`, but it is no directory first.
            Does(Chdir(b"/f\0"), Fails(ENOTDIR)),
            Does(Chdir(b"/tty\0"), Fails(ENOTDIR)),
            Does(Chdir(b"/x\0"), Fails(EACCES)),
            Does(Chdir(b"/nothing\0"), Fails(ENOENT)),
            Does(Chdir(b"/f/y\0"), Fails(ENOTDIR)),
            Does(Chdir(b"/d"), Fails(EFAULT)),
            User(0, 0),
            Does(Chdir(b"/x\0"), Fails(EACCES)),
            Has(Directory(1)),
            Has(Refs(1, 2)),
            Has(Refs(3, 0)),
            Has(Refs(4, 0)),
        ],
    },
    Scene {
        // Of `/d`, which is user 1's and group 2's, the group alone has no bit for execution; of `/e`, the others alone have one.
        name: "the first class that fits",
        disk: &[(1056, 0o140707), (1408, 0o140001)],
        crowd: 0,
        steps: &[
            User(9, 2),
            Does(Chdir(b"/d\0"), Fails(EACCES)),
            Does(Chdir(b"/e\0"), Fails(EACCES)),
            User(1, 2),
            Does(Chdir(b"/e\0"), Fails(EACCES)),
            Does(Chdir(b"/d\0"), Done),
            User(9, 9),
            Does(Chdir(b"/e\0"), Done),
            Does(Chdir(b"/d\0"), Done),
            User(0, 2),
            Does(Chdir(b"/e\0"), Done),
            Has(Directory(13)),
        ],
    },
    Scene {
        name: "permissions",
        disk: &[],
        crowd: 0,
        steps: &[
            // User 0 sets all twelve bits. The type stays.
            Does(Chmod(b"/f\0", 0o7777), Done),
            Has(Inode(3, 0o107777, [2, 1, 2], 600)),
            Has(Times(3, 0x0001_0002, T)),
            Has(Refs(3, 0)),
            Does(Chmod(b"/f\0", 0o177001), Done),
            Has(Inode(3, 0o107001, [2, 1, 2], 600)),
            Does(Chmod(b"/f\0", 0o1644), Done),
            // The owner neither sets nor keeps the sticky bit.
            User(1, 9),
            Does(Chmod(b"/f\0", 0o1600), Done),
            Has(Inode(3, 0o100600, [2, 1, 2], 600)),
            Does(Chmod(b"/f\0", 0o7777), Done),
            Has(Inode(3, 0o106777, [2, 1, 2], 600)),
            Does(Chmod(b"/d\0", 0), Done),
            Has(Inode(2, 0o140000, [2, 1, 2], 64)),
            Does(Chmod(b"/a\0", 0), Done),
            Has(Inode(9, 0o100000, [1, 1, 2], 0)),
            User(0, 0),
            Does(Chmod(b"/tty\0", 0o140644), Done),
            Has(Inode(5, 0o120644, [1, 0, 0], 0)),
            Does(Chmod(b"/rk\0", 0), Done),
            Has(Inode(8, 0o160000, [1, 0, 0], 0)),
        ],
    },
    Scene {
        // `/a` is large, though it has no block; `/b` is in use by its mode alone.
        name: "other bits of the mode",
        disk: &[(1280, 0o110066), (1312, 0o606)],
        crowd: 0,
        steps: &[
            Does(Chmod(b"/a\0", 0o400), Done),
            Has(Inode(9, 0o110400, [1, 1, 2], 0)),
            Does(Chmod(b"/b\0", 0), Done),
            Has(Inode(10, 0o100000, [1, 1, 2], 0)),
        ],
    },
    Scene {
        name: "owners",
        disk: &[(1088, 0o104755)],
        crowd: 0,
        steps: &[
            // The user in the low byte, the group in the high one. The mode stays.
            Does(Chown(b"/f\0", 0x0709), Done),
            Has(Inode(3, 0o104755, [2, 9, 7], 600)),
            Has(Times(3, 0x0001_0002, T)),
            Has(Refs(3, 0)),
            Does(Chown(b"/d\0", 0xff00), Done),
            Has(Inode(2, 0o140755, [2, 0, 255], 64)),
            Does(Chown(b"/null\0", 1), Done),
            Has(Inode(6, 0o120666, [1, 1, 0], 0)),
            Has(Address(6, 0, 2050)),
            Does(Chown(b"/nothing\0", 1), Fails(ENOENT)),
            Does(Chown(b"/x/y\0", 1), Fails(EACCES)),
            Does(Chown(b"/f", 1), Fails(EFAULT)),
            // The owner cannot give it away, which comes before the name.
            User(9, 0),
            Does(Chown(b"/f\0", 0x0709), Fails(EPERM)),
            Does(Chown(b"/nothing\0", 1), Fails(EPERM)),
            Does(Chown(b"/f", 1), Fails(EPERM)),
            Has(Inode(3, 0o104755, [2, 9, 7], 600)),
        ],
    },
    Scene {
        name: "who may change permissions",
        disk: &[],
        crowd: 0,
        steps: &[
            User(9, 2),
            Does(Chmod(b"/c\0", 0o777), Fails(EPERM)),
            User(2, 1),
            Does(Chmod(b"/c\0", 0o777), Fails(EPERM)),
            Does(Chmod(b"/nothing\0", 0o777), Fails(ENOENT)),
            Does(Chmod(b"/x/y\0", 0o777), Fails(EACCES)),
            Does(Chmod(b"/c", 0o777), Fails(EFAULT)),
            Has(Inode(11, 0o100660, [1, 1, 2], 0)),
            Has(Times(11, 0, 0)),
            Has(Refs(11, 0)),
            // The owner may, of a file that it may not even read.
            User(1, 9),
            Does(Chmod(b"/a\0", 0o600), Done),
            Has(Inode(9, 0o100600, [1, 1, 2], 0)),
            Does(Open(b"/a\0", 2), Gives(0)),
        ],
    },
];

#[test]
fn directories_permissions_and_owners_change(rt: HostRuntime) {
    assert_eq!(rt; failure(rt.alloc(), &SCENES).expect(&rt, "memory"), None);
}
