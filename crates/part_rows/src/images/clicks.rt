//! The bytes of core: clicks are numbered from 1 on, bytes are counted from the first click's. `copyseg` and `clearseg` in
//! Lions' Commentary, `m40.s`, and `swap` in `bio.c`.
ghost use Rattle.std.specs.Prelude.{◌≡◌, ◌+◌, ◌*◌, ◌&&◌, nat_lt, nat_le, length};
ghost use Rattle.core_mem.specs.Bytes.{click_start};

use crate::images::clicks::Step::{Byte, Clears, Click, Copies, Goes, Puts};
use crate::tell;
use core_mem::Core;
use std::alloc::{AllocError, Global};
use std::process::Abort;

/// What is asked of core, and what must come of it.
#[derive(Clone, Copy)]
enum Step {
    /// Bytes are put to a place.
    Puts(u32, &'static [u8]),
    /// Clicks are made zeros: the first, and how many.
    Clears(u16, u16),
    /// Clicks are copied: from, to, how many.
    Copies(u16, u16, u16),
    /// Two clicks go to the swap area, from the first number on, and come back to the second.
    Goes(u16, u16),
    /// The byte at a place.
    Byte(u32, u8),
    /// The first and the last byte of a click.
    Click(u16, u8, u8),
}

/// Makes the first and the last byte of each click another, but for the very last.
static FOUR: [Step; 4] = [
    Puts(0, b"\x11"),
    Puts(63, b"\x12\x21"),
    Puts(127, b"\x22\x31"),
    Puts(191, b"\x32\x41"),
];

static FRESH: [Step; 4] = [Click(1, 0, 0), Click(4, 0, 0), Byte(0, 0), Byte(255, 0)];

static PLACES: [Step; 12] = [
    Puts(255, b"\x42"),
    Click(1, 0x11, 0x12),
    Click(2, 0x21, 0x22),
    Click(3, 0x31, 0x32),
    Click(4, 0x41, 0x42),
    Byte(0, 0x11),
    Byte(64, 0x21),
    Byte(255, 0x42),
    Puts(254, b"\x51\x52"),
    Byte(253, 0),
    Byte(254, 0x51),
    Click(4, 0x41, 0x52),
];

static CLEARED: [Step; 8] = [
    Clears(2, 2),
    Click(1, 0x11, 0x12),
    Click(2, 0, 0),
    Click(3, 0, 0),
    Byte(192, 0x41),
    Clears(4, 1),
    Click(4, 0, 0),
    Byte(63, 0x12),
];

static COPIED_UP: [Step; 5] = [
    Copies(1, 2, 3),
    Click(1, 0x11, 0x12),
    Click(2, 0x11, 0x12),
    Click(3, 0x21, 0x22),
    Click(4, 0x31, 0x32),
];

static COPIED_DOWN: [Step; 5] = [
    Copies(2, 1, 3),
    Click(1, 0x21, 0x22),
    Click(2, 0x31, 0x32),
    Click(3, 0x41, 0),
    Click(4, 0x41, 0),
];

static COPIED_APART: [Step; 9] = [
    Copies(1, 4, 1),
    Click(1, 0x11, 0x12),
    Click(4, 0x11, 0x12),
    Click(3, 0x31, 0x32),
    Copies(2, 4, 0),
    Click(4, 0x11, 0x12),
    Copies(1, 1, 4),
    Click(2, 0x21, 0x22),
    Click(4, 0x11, 0x12),
];

static SWAPPED: [Step; 6] = [
    Goes(1, 3),
    Click(1, 0x11, 0x12),
    Click(2, 0x21, 0x22),
    Click(3, 0x11, 0x12),
    Click(4, 0x21, 0x22),
    Byte(191, 0x12),
];

/// Whether `n` clicks from `at` on are inside.
fn are_inside(core: &Core, at: u16, n: u16) -> bool
    ensures { result ≡ (nat_lt 0 at && nat_le (click_start at + 64 * n) (length core.now)) }
{
    at > 0 && 64 * (usize::from(at) - 1) + 64 * usize::from(n) <= core.as_slice().len()
}

fn puts(core: &mut Core, at: u32, bytes: &[u8]) -> bool {
    let size = core.as_slice().len();
    let may = bytes.len() <= size && at as usize <= size - bytes.len();
    if may {
        core.put(at, bytes);
    }
    may
}

fn clears(core: &mut Core, at: u16, n: u16) -> bool {
    let may = are_inside(core, at, n);
    if may {
        core.clear(at, n);
    }
    may
}

fn copies(core: &mut Core, from: u16, to: u16, n: u16) -> bool {
    let may = are_inside(core, from, n) && are_inside(core, to, n);
    if may {
        core.copy(from, to, n);
    }
    may
}

fn goes(core: &mut Core, from: u16, to: u16) -> bool {
    let may = are_inside(core, from, 2) && are_inside(core, to, 2);
    if may {
        let mut area = [0; 128];
        core.to_swap(from, 2, &mut area);
        core.from_swap(&area, to, 2);
    }
    may
}

fn is_byte(core: &Core, at: u32, byte: u8) -> bool {
    (at as usize) < core.as_slice().len() && core.byte(at) == byte
}

fn is_click(core: &Core, at: u16, first: u8, last: u8) -> bool {
    if !are_inside(core, at, 1) {
        return false;
    }
    let bytes = core.click(at);
    bytes[0] == first && bytes[63] == last
}

fn holds(core: &mut Core, step: Step) -> bool {
    match step {
        Puts(at, bytes) => puts(core, at, bytes),
        Clears(at, n) => clears(core, at, n),
        Copies(from, to, n) => copies(core, from, to, n),
        Goes(from, to) => goes(core, from, to),
        Byte(at, byte) => is_byte(core, at, byte),
        Click(at, first, last) => is_click(core, at, first, last),
    }
}

/// The number of the first step that does not hold, from 0 on.
fn first_of(core: &mut Core, steps: &[Step]) -> Option<usize> {
    for (k, step) in steps.iter().enumerate() {
        if !holds(core, *step) {
            return Some(k);
        }
    }
    None
}

/// The first step that does not hold, from 0 on, in a core of four clicks, after these other steps.
fn first_failure(
    alloc: Global,
    before: &[Step],
    steps: &[Step],
) -> Result<Option<usize>, AllocError> {
    let mut core = Core::new(alloc, 4)?;
    Ok(match first_of(&mut core, before) {
        Some(k) => Some(k),
        None => first_of(&mut core, steps),
    })
}

/// Tells the first step that does not hold.
fn judge(rt: &impl Abort, alloc: Global, before: &[Step], steps: &[Step]) {
    tell::step(rt, first_failure(alloc, before, steps).expect(rt, "memory"));
}

#[test]
fn core_begins_as_zeros(rt: HostRuntime) {
    judge(&rt, rt.alloc(), &[], &FRESH);
}

#[test]
fn clicks_and_bytes_have_their_places(rt: HostRuntime) {
    judge(&rt, rt.alloc(), &FOUR, &PLACES);
}

#[test]
fn clicks_are_cleared(rt: HostRuntime) {
    judge(&rt, rt.alloc(), &FOUR, &CLEARED);
}

#[test]
fn clicks_are_copied(rt: HostRuntime) {
    judge(&rt, rt.alloc(), &FOUR, &COPIED_UP);
    judge(&rt, rt.alloc(), &FOUR, &COPIED_DOWN);
    judge(&rt, rt.alloc(), &FOUR, &COPIED_APART);
}

#[test]
fn clicks_go_out_and_come_in(rt: HostRuntime) {
    judge(&rt, rt.alloc(), &FOUR, &SWAPPED);
}
