//! Addresses by hand, from segments of 8,192 bytes and clicks of 64 (PDP-11/40 Processor Handbook, chapter 6; Lions'
//! Commentary, `estabur`); the errors of calls by INTRO(II).
use crate::tell;
use std::process::Abort;
use v6_base::{Errno, Fixed, Space, Trap, Whole};

// One access of a memory and what it must answer.
#[derive(Clone, Copy)]
enum Access {
    LoadByte(u16, Result<u8, Trap>),
    LoadWord(u16, Result<u16, Trap>),
    StoreByte(u16, u8, Result<(), Trap>),
    StoreWord(u16, u16, Result<(), Trap>),
    // Four bytes that are got, or not.
    CopyIn(u16, Option<[u8; 4]>),
    // Four bytes, and whether they are put.
    CopyOut(u16, [u8; 4], bool),
}

fn four_bytes<S: Space>(memory: &S, at: u16) -> Option<[u8; 4]> {
    let mut bytes = [0o377; 4];
    if memory.copy_in(at, &mut bytes) {
        Some(bytes)
    } else {
        None
    }
}

fn holds<S: Space>(memory: &mut S, access: Access) -> bool {
    match access {
        Access::LoadByte(at, wanted) => memory.load_byte(at) == wanted,
        Access::LoadWord(at, wanted) => memory.load_word(at) == wanted,
        Access::StoreByte(at, value, wanted) => memory.store_byte(at, value) == wanted,
        Access::StoreWord(at, value, wanted) => memory.store_word(at, value) == wanted,
        Access::CopyIn(at, wanted) => four_bytes(memory, at) == wanted,
        Access::CopyOut(at, bytes, wanted) => memory.copy_out(at, &bytes) == wanted,
    }
}

// The accesses come one after the other, so a load tells of the stores before it.
fn judge<S: Space>(rt: &impl Abort, memory: &mut S, accesses: &[Access]) {
    for (k, access) in accesses.iter().enumerate() {
        tell::plain_row(rt, k, holds(memory, *access));
    }
}

// Of sizes in clicks 0, 0, 0.
static NOTHING: [Access; 1] = [Access::LoadByte(0, Err(Trap::Segment))];

// 129, 1, 1: a text up to 8255, data from 16384 to 16447, a stack from 65472 on.
static TEXT_DATA_STACK: [Access; 11] = [
    Access::LoadWord(8254, Ok(0)),
    Access::StoreWord(8254, 1, Err(Trap::Segment)),
    Access::LoadByte(8256, Err(Trap::Segment)),
    Access::LoadWord(8257, Err(Trap::Odd)),
    Access::StoreWord(16446, 0o1002, Ok(())),
    Access::LoadByte(16447, Ok(2)),
    Access::StoreByte(16448, 1, Err(Trap::Segment)),
    Access::StoreWord(16447, 1, Err(Trap::Odd)),
    Access::StoreWord(65534, 0o123456, Ok(())),
    Access::LoadByte(65534, Ok(0o56)),
    Access::StoreByte(65535, 7, Ok(())),
];

// 129, 0, 2, after that: the stack has grown at its front, to 65408, and the data are gone.
static LONGER_STACK: [Access; 5] = [
    Access::LoadWord(65534, Ok(0o3456)),
    Access::LoadWord(65408, Ok(0)),
    Access::LoadWord(65406, Err(Trap::Segment)),
    Access::LoadWord(16446, Err(Trap::Segment)),
    Access::StoreWord(65470, 0o123456, Ok(())),
];

// The same, after a stack of 1 click.
static STACK_AGAIN: [Access; 2] = [
    Access::LoadWord(65470, Ok(0)),
    Access::LoadWord(65534, Ok(0o3456)),
];

// 0, 1, 2, after that: the data that come anew are zeros, where 16446 was.
static DATA_AGAIN: [Access; 1] = [Access::LoadWord(62, Ok(0))];

// 128, 1, 0: a text that fills its segment, so the data begin right after it.
static FULL_SEGMENT: [Access; 3] = [
    Access::StoreByte(8191, 1, Err(Trap::Segment)),
    Access::StoreByte(8192, 1, Ok(())),
    Access::LoadByte(8192, Ok(1)),
];

#[test]
fn a_text_data_and_a_stack_stand_at_their_addresses(rt: HostRuntime) {
    let mut memory = Whole::new(rt.alloc()).expect(&rt, "memory");
    judge(&rt, &mut memory, &NOTHING);
    memory.set_sizes(129, 1, 1);
    judge(&rt, &mut memory, &TEXT_DATA_STACK);
    memory.set_sizes(129, 0, 2);
    judge(&rt, &mut memory, &LONGER_STACK);
    memory.set_sizes(129, 0, 1);
    memory.set_sizes(129, 0, 2);
    judge(&rt, &mut memory, &STACK_AGAIN);
    memory.set_sizes(0, 1, 2);
    judge(&rt, &mut memory, &DATA_AGAIN);
    memory.set_sizes(128, 1, 0);
    judge(&rt, &mut memory, &FULL_SEGMENT);
}

// 128, 768, 128: a text that fills its segment, data that fill six, and a stack that fills the last. Four bytes go from
// the text into the data, from the data into the stack, and from the last address on to 0.
static NO_GAP: [Access; 16] = [
    Access::StoreWord(8192, 0o1002, Ok(())),
    Access::CopyIn(8190, Some([0, 0, 2, 2])),
    Access::CopyOut(8190, [1, 2, 3, 4], false),
    Access::LoadWord(8192, Ok(0o1002)),
    Access::CopyOut(8192, [1, 2, 3, 4], true),
    Access::CopyIn(8191, Some([0, 1, 2, 3])),
    Access::CopyOut(57342, [1, 2, 3, 4], true),
    Access::LoadByte(57343, Ok(2)),
    Access::LoadByte(57344, Ok(3)),
    Access::CopyIn(57341, Some([0, 1, 2, 3])),
    Access::CopyOut(65534, [5, 6, 7, 8], false),
    Access::LoadWord(65534, Ok(0)),
    Access::StoreWord(65534, 0o403, Ok(())),
    Access::CopyIn(65534, Some([3, 1, 0, 0])),
    Access::CopyOut(65532, [5, 6, 7, 8], true),
    Access::CopyIn(65533, Some([6, 7, 8, 0])),
];

// 0, 1, 1: data up to 63, a stack from 65472 on, and nothing between them. Four bytes go from the stack into the data, and
// none where one of them has no place.
static A_GAP: [Access; 15] = [
    Access::CopyOut(65534, [5, 6, 7, 8], true),
    Access::LoadWord(65534, Ok(0o3005)),
    Access::LoadWord(0, Ok(0o4007)),
    Access::CopyIn(65534, Some([5, 6, 7, 8])),
    Access::CopyIn(65535, Some([6, 7, 8, 0])),
    Access::CopyOut(62, [1, 2, 3, 4], false),
    Access::LoadWord(62, Ok(0)),
    Access::CopyIn(62, None),
    Access::CopyIn(61, None),
    Access::CopyOut(60, [1, 2, 3, 4], true),
    Access::CopyIn(60, Some([1, 2, 3, 4])),
    Access::CopyOut(65470, [1, 2, 3, 4], false),
    Access::LoadWord(65472, Ok(0)),
    Access::CopyIn(65470, None),
    Access::CopyIn(65471, None),
];

#[test]
fn bytes_go_from_one_list_into_the_next(rt: HostRuntime) {
    let mut memory = Whole::new(rt.alloc()).expect(&rt, "memory");
    memory.set_sizes(128, 768, 128);
    judge(&rt, &mut memory, &NO_GAP);
    memory.set_sizes(0, 0, 0);
    memory.set_sizes(0, 1, 1);
    judge(&rt, &mut memory, &A_GAP);
}

// Of a name of the kernel's own: `co`, and the number 7 in its last byte.
static NAME: [Access; 13] = [
    Access::LoadByte(1, Ok(b'o')),
    Access::LoadWord(0, Ok(0o67543)),
    Access::LoadByte(63, Ok(7)),
    Access::LoadWord(62, Ok(0o3400)),
    Access::LoadByte(64, Err(Trap::Segment)),
    Access::LoadWord(64, Err(Trap::Segment)),
    Access::StoreByte(0, 0, Err(Trap::Segment)),
    Access::StoreWord(1, 0, Err(Trap::Odd)),
    Access::CopyIn(0, Some([b'c', b'o', 0, 0])),
    Access::CopyIn(60, Some([0, 0, 0, 7])),
    Access::CopyIn(61, None),
    Access::CopyIn(65534, None),
    Access::CopyOut(0, [1, 2, 3, 4], false),
];

#[test]
fn names_of_the_kernel_are_read(rt: HostRuntime) {
    let mut bytes = [0; 64];
    bytes[0] = b'c';
    bytes[1] = b'o';
    bytes[63] = 7;
    let mut name = Fixed::new(bytes);
    judge(&rt, &mut name, &NAME);
}

// INTRO(II); the last is the kernel's own.
static ERRORS: [(Errno, u16); 32] = [
    (Errno::EPERM, 1),
    (Errno::ENOENT, 2),
    (Errno::ESRCH, 3),
    (Errno::EINTR, 4),
    (Errno::EIO, 5),
    (Errno::ENXIO, 6),
    (Errno::E2BIG, 7),
    (Errno::ENOEXEC, 8),
    (Errno::EBADF, 9),
    (Errno::ECHILD, 10),
    (Errno::EAGAIN, 11),
    (Errno::ENOMEM, 12),
    (Errno::EACCES, 13),
    (Errno::ENOTBLK, 15),
    (Errno::EBUSY, 16),
    (Errno::EEXIST, 17),
    (Errno::EXDEV, 18),
    (Errno::ENODEV, 19),
    (Errno::ENOTDIR, 20),
    (Errno::EISDIR, 21),
    (Errno::EINVAL, 22),
    (Errno::ENFILE, 23),
    (Errno::EMFILE, 24),
    (Errno::ENOTTY, 25),
    (Errno::ETXTBSY, 26),
    (Errno::EFBIG, 27),
    (Errno::ENOSPC, 28),
    (Errno::ESPIPE, 29),
    (Errno::EROFS, 30),
    (Errno::EMLINK, 31),
    (Errno::EPIPE, 32),
    (Errno::EFAULT, 106),
];

fn judge_errors(rt: &impl Abort, rows: &[(Errno, u16)]) {
    for (k, row) in rows.iter().enumerate() {
        tell::plain_row(rt, k, row.0 as u16 == row.1);
    }
}

#[test]
fn errors_have_their_numbers(rt: HostRuntime) {
    judge_errors(&rt, &ERRORS);
}
