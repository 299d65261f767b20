//! Per-process areas and their 1,024 bytes, written by hand from the table of docs/manual/u-area.md, which is `user.h`
//! of Lions' Commentary in a layout of this project's own.
ghost use Rattle.std.specs.Prelude.{◌≡◌};
ghost use Rattle.u_area.specs.Area.{area_bytes, IsSized};

use crate::file_system::fixtures::{Piece, put};
use std::process::Abort;
use u_area::{UArea, fetch};

/// Each field has bytes of its own.
const EACH: UArea = UArea {
    r: [
        0x0102, 0x0304, 0x0506, 0x0708, 0x090a, 0x0b0c, 0x0d0e, 0x0f10,
    ],
    cc: 0o05,
    uid: 0x11,
    gid: 0x12,
    ruid: 0x13,
    rgid: 0x14,
    dir: 0x1516,
    text_size: 0x1718,
    data_size: 0x191a,
    stack_size: 0x1b1c,
    pending: 7,
    call: [
        0x1d1e, 0x1f20, 0x2122, 0x2324, 0x2526, 0x2728, 0x292a, 0x2b2c,
    ],
    user_time: 0x2d2e,
    system_time: 0x2f30,
    child_user: 0x3132_3334,
    child_system: 0x3536_3738,
    status: 0x393a,
    handlers: [
        0x4041, 0x4243, 0x4445, 0x4647, 0x4849, 0x4a4b, 0x4c4d, 0x4e4f, 0x5051, 0x5253, 0x5455,
        0x5657, 0x5859, 0x5a5b, 0x5c5d, 0x5e5f, 0x6061, 0x6263, 0x6465, 0x6667,
    ],
    files: *b"ghijklmnopqrstu",
};

/// Its bytes, in the order of the table; the others are 0.
static EACH_BYTES: [Piece<'static>; 10] = [
    (
        0,
        b"\x02\x01\x04\x03\x06\x05\x08\x07\x0a\x09\x0c\x0b\x0e\x0d\x10\x0f\x05\xf0",
    ),
    (18, b"\x11\x12\x13\x14"),
    (22, b"\x16\x15"),
    (24, b"\x18\x17\x1a\x19\x1c\x1b"),
    (30, b"\x07"),
    (
        32,
        b"\x1e\x1d\x20\x1f\x22\x21\x24\x23\x26\x25\x28\x27\x2a\x29\x2c\x2b",
    ),
    (48, b"\x2e\x2d\x30\x2f\x32\x31\x34\x33\x36\x35\x38\x37"),
    (60, b"\x3a\x39"),
    (64, b"A@CBEDGFIHKJMLONQPSRUTWVYX[Z]\\_^a`cbedgf"),
    (104, b"ghijklmnopqrstu"),
];

/// All fields are 0.
const ZERO: UArea = UArea {
    r: [0; 8],
    cc: 0,
    uid: 0,
    gid: 0,
    ruid: 0,
    rgid: 0,
    dir: 0,
    text_size: 0,
    data_size: 0,
    stack_size: 0,
    pending: 0,
    call: [0; 8],
    user_time: 0,
    system_time: 0,
    child_user: 0,
    child_system: 0,
    status: 0,
    handlers: [0; 20],
    files: [0; 15],
};

/// All fields are as great as they can be.
const ONES: UArea = UArea {
    r: [0xffff; 8],
    cc: 15,
    uid: 0xff,
    gid: 0xff,
    ruid: 0xff,
    rgid: 0xff,
    dir: 0xffff,
    text_size: 0xffff,
    data_size: 0xffff,
    stack_size: 0xffff,
    pending: 0xff,
    call: [0xffff; 8],
    user_time: 0xffff,
    system_time: 0xffff,
    child_user: 0xffff_ffff,
    child_system: 0xffff_ffff,
    status: 0xffff,
    handlers: [0xffff; 20],
    files: [0xff; 15],
};

/// The bytes of an area, written over bytes that are all ones.
fn stored(u: &UArea) -> [u8; 1024]
    ensures written { result ≡ area_bytes u.now }
    ensures sized { IsSized u.now }
{
    let mut bytes = [0xff; 1024];
    u.store(&mut bytes);
    bytes
}

/// The area that comes back from the bytes of one.
fn come_back(u: &UArea) -> UArea
    ensures { result ≡ u.now }
{
    let bytes = stored(u);
    fetch(&bytes)
}

/// Whether an area has these pieces and zeros as its bytes, and comes back from them.
fn stands(u: &UArea, pieces: &[Piece<'_>]) -> bool {
    let mut bytes = [0; 1024];
    put(&mut bytes, pieces);
    stored(u) == bytes && come_back(u) == *u
}

#[test]
fn fields_stand_at_their_places(rt: HostRuntime) {
    assert!(rt; stands(&EACH, &EACH_BYTES));
    assert!(rt; stands(&ZERO, &[(17, b"\xf0")]));
}

/// The status word is then 0170017.
#[test]
fn greatest_fields_leave_the_other_bytes(rt: HostRuntime) {
    let row: [Piece<'_>; 4] = [
        (0, &[0xff; 31]),
        (16, b"\x0f\xf0"),
        (32, &[0xff; 30]),
        (64, &[0xff; 55]),
    ];
    assert!(rt; stands(&ONES, &row));
}

/// The status word is 0170000 plus N 8, Z 4, V 2 and C 1.
#[test]
fn codes_stand_in_the_status_word(rt: HostRuntime) {
    for cc in 0..16 {
        let mut u = ZERO;
        u.cc = cc;
        assert!(rt; stands(&u, &[(16, &[cc, 0xf0])]));
    }
}

/// A time of the children, and its bytes.
static TIMES: [(u32, &[u8; 4]); 6] = [
    (1, b"\0\0\x01\0"),
    (65_535, b"\0\0\xff\xff"),
    (65_536, b"\x01\0\0\0"),
    (65_537, b"\x01\0\x01\0"),
    (0x1234_5678, b"\x34\x12\x78\x56"),
    (0xffff_0000, b"\xff\xff\0\0"),
];

#[test]
fn times_of_children_have_their_high_word_first(rt: HostRuntime) {
    for (time, bytes) in TIMES {
        let mut user = ZERO;
        user.child_user = time;
        assert!(rt; stands(&user, &[(17, b"\xf0"), (52, bytes)]));
        let mut system = ZERO;
        system.child_system = time;
        assert!(rt; stands(&system, &[(17, b"\xf0"), (56, bytes)]));
    }
}

/// The first and the last handler, and the first and the last file.
#[test]
fn handlers_and_files_begin_and_end_at_their_places(rt: HostRuntime) {
    let mut u = ZERO;
    u.handlers[0] = 0x0102;
    u.handlers[19] = 0x0304;
    u.files[0] = 5;
    u.files[14] = 6;
    let row: [Piece<'_>; 5] = [
        (17, b"\xf0"),
        (64, b"\x02\x01"),
        (102, b"\x04\x03\x05"),
        (118, b"\x06"),
        (119, b"\0"),
    ];
    assert!(rt; stands(&u, &row));
}
