//! Signals that come to their process, whose stack has grown already, where it could.
use crate::signals::AREA;
use crate::tell;
use sig_core::{Delivered, deliver};
use std::alloc::{AllocError, Global};
use v6_base::{Space, Whole};

/// Two clicks of data, each byte 0125: the addresses 0 to 0177.
fn memory(alloc: Global) -> Result<Whole, AllocError> {
    let mut space = Whole::new(alloc)?;
    space.set_sizes(0, 2, 0);
    for at in 0..128 {
        let _ = space.store_byte(at, 0o125);
    }
    Ok(space)
}

/// Words of the data that are not as they were before, by their addresses.
type Words = &'static [(u16, u16)];

fn has(space: &Whole, words: &[(u16, u16)]) -> bool {
    for k in 0..64 {
        let at = 2 * k;
        let mut word = 0o52525;
        for (place, value) in words {
            if *place == at {
                word = *value;
            }
        }
        if space.load_word(at) != Ok(word) {
            return false;
        }
    }
    true
}

/// The signal, its routine, R6 and the codes; what the process has asked for after it; and what was pushed.
type Caught = (u8, u16, u16, u8, u16, Words);

static CAUGHT: [Caught; 15] = [
    // PS is 0170000 with the codes, and stands above the PC. The next one is not caught.
    (2, 0o100, 0o160, 5, 0, &[(0o156, 0o170005), (0o154, 0o42)]),
    (2, 0o100, 0o160, 0, 0, &[(0o156, 0o170000), (0o154, 0o42)]),
    (1, 2, 0o160, 15, 0, &[(0o156, 0o170017), (0o154, 0o42)]),
    (19, 0o177776, 4, 8, 0, &[(2, 0o170010), (0, 0o42)]),
    // An illegal instruction and a trace are caught again. Their neighbours are not.
    (3, 0o100, 0o160, 5, 0, &[(0o156, 0o170005), (0o154, 0o42)]),
    (
        4,
        0o100,
        0o160,
        5,
        0o100,
        &[(0o156, 0o170005), (0o154, 0o42)],
    ),
    (
        5,
        0o100,
        0o160,
        5,
        0o100,
        &[(0o156, 0o170005), (0o154, 0o42)],
    ),
    (6, 0o100, 0o160, 5, 0, &[(0o156, 0o170005), (0o154, 0o42)]),
    // Here a kill is as any other: signal(II) alone keeps its handler at the default.
    (9, 0o100, 0o160, 5, 0, &[(0o156, 0o170005), (0o154, 0o42)]),
    // There is no memory from 0200 on, and each word by itself is left out where it can't be written.
    (2, 0o100, 0o204, 5, 0, &[]),
    (2, 0o100, 0o202, 5, 0, &[(0o176, 0o42)]),
    (2, 0o100, 0o200, 5, 0, &[(0o176, 0o170005), (0o174, 0o42)]),
    // An odd address takes no word.
    (2, 0o100, 0o161, 5, 0, &[]),
    // Addresses wrap round: the PS stands at 0, and nothing is at 0177776.
    (2, 0o100, 2, 5, 0, &[(0, 0o170005)]),
    (2, 0o100, 0, 5, 0, &[]),
];

fn is_caught(alloc: Global, caught: &Caught) -> Result<bool, AllocError> {
    let (sig, routine, sp, codes, then, words) = *caught;
    if sig == 0 || sig > 19 || codes > 15 {
        return Ok(false);
    }
    let mut space = memory(alloc)?;
    let mut u = AREA;
    u.r[6] = sp;
    u.cc = codes;
    u.handlers[usize::from(sig)] = routine;
    if u.handlers[usize::from(sig)] % 2 == 1 {
        return Ok(false);
    }
    let mut after = u;
    after.handlers[usize::from(sig)] = then;
    after.r[6] = sp.wrapping_sub(4);
    after.r[7] = routine;
    let came = deliver(&mut u, sig, &mut space);
    Ok(came == Delivered::Caught && u == after && has(&space, words))
}

#[test]
fn a_routine_goes_on_below_what_was_pushed(rt: HostRuntime) {
    for (k, caught) in CAUGHT.iter().enumerate() {
        tell::row(&rt, k, is_caught(rt.alloc(), caught));
    }
}

/// A text of a click, which takes no word, and a click of data from 020000 on: PS and PC are left out with R6 in the text.
fn leaves_text(alloc: Global) -> Result<bool, AllocError> {
    let mut space = Whole::new(alloc)?;
    space.set_sizes(1, 1, 0);
    let mut u = AREA;
    u.r[6] = 0o40;
    if u.handlers[2] % 2 == 1 {
        return Ok(false);
    }
    let came = deliver(&mut u, 2, &mut space);
    let left = space.load_word(0o36) == Ok(0) && space.load_word(0o34) == Ok(0);
    Ok(came == Delivered::Caught && left && u.r[6] == 0o34 && u.r[7] == 0o200)
}

#[test]
fn nothing_is_pushed_into_a_text(rt: HostRuntime) {
    tell::all(&rt, leaves_text(rt.alloc()));
}

/// Whether each signal from 1 to 19 leaves the file `core` where it ends its process.
static ENDS: [(u8, bool); 19] = [
    (1, false),
    (2, false),
    (3, true),
    (4, true),
    (5, true),
    (6, true),
    (7, true),
    (8, true),
    (9, false),
    (10, true),
    (11, true),
    (12, true),
    (13, false),
    (14, false),
    (15, false),
    (16, false),
    (17, false),
    (18, false),
    (19, false),
];

fn is_ended(alloc: Global, ends: &(u8, bool)) -> Result<bool, AllocError> {
    let (sig, core) = *ends;
    if sig == 0 || sig > 19 {
        return Ok(false);
    }
    let mut space = memory(alloc)?;
    let mut u = AREA;
    u.handlers[usize::from(sig)] = 0;
    if u.handlers[usize::from(sig)] % 2 == 1 {
        return Ok(false);
    }
    let after = u;
    let came = deliver(&mut u, sig, &mut space);
    Ok(came == Delivered::Ends { core } && u == after && has(&space, &[]))
}

#[test]
fn by_default_a_process_ends(rt: HostRuntime) {
    for (k, ends) in ENDS.iter().enumerate() {
        tell::row(&rt, k, is_ended(rt.alloc(), ends));
    }
}
