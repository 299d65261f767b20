//! Bytes that are put into core and the swap area, and so into the images that stand there: docs/manual/memory.md.

use crate::images::scenes::Step::{Bares, Deposits, Ends, Forks, Has, Loads, Makes};
use crate::images::scenes::{Scene, Step, first_of, judge};
use crate::images::table::Table;
use crate::tell;
use std::alloc::{AllocError, Global};
use v6_base::Place::{Core, Swap};
use v6_base::Trap::Segment;

static DEPOSITS: [Scene; 2] = [
    Scene {
        // Slot 1 has clicks 1 to 19: 1,024 bytes of u area, 128 of data, 64 of stack. Slot 2 has clicks 20 to 38.
        name: "a byte in core",
        core: 64,
        steps: &[
            Deposits(false, 1024, 1, false),
            Makes(1, 2, 1, Some(Core(1))),
            Forks(1, 2, Some(Core(20))),
            Deposits(false, 0, 2, false),
            Deposits(false, 1023, 3, false),
            Deposits(false, 1024, 4, true),
            Deposits(false, 1151, 5, true),
            Deposits(false, 1152, 6, true),
            Deposits(false, 1215, 7, true),
            Deposits(false, 1216, 8, false),
            Deposits(false, 2239, 9, false),
            Deposits(false, 2240, 10, true),
            Deposits(false, 2432, 11, false),
            Deposits(false, 4095, 12, false),
            Loads(1, 0, Ok(4)),
            Loads(1, 1, Ok(0)),
            Loads(1, 127, Ok(5)),
            Loads(1, 128, Err(Segment)),
            Loads(1, 65472, Ok(6)),
            Loads(1, 65535, Ok(7)),
            Loads(2, 0, Ok(10)),
            Loads(2, 127, Ok(0)),
            Has(false, 1024, 4),
            Has(false, 1151, 5),
            Has(false, 1152, 6),
            Has(false, 1215, 7),
            Has(false, 1216, 0),
            Has(false, 2240, 10),
            Bares(1),
            Deposits(false, 1024, 13, false),
            Has(false, 1024, 4),
        ],
    },
    Scene {
        // Slots 2 and 3 stand in the swap area, slot 2 in blocks 4000 to 4002, whose last 320 bytes nobody has, and slot 3 in
        // blocks 4003 to 4005. Then one block, 4006, is kept of slot 3.
        name: "a byte in the swap area",
        core: 64,
        steps: &[
            Makes(1, 20, 20, Some(Core(1))),
            Makes(2, 2, 1, Some(Swap(4000))),
            Makes(3, 2, 1, Some(Swap(4003))),
            Deposits(true, 1023, 1, false),
            Deposits(true, 1024, 2, true),
            Deposits(true, 1152, 3, true),
            Deposits(true, 1215, 4, true),
            Deposits(true, 1216, 5, false),
            Deposits(true, 1535, 6, false),
            Deposits(true, 2560, 7, true),
            Deposits(false, 1024, 8, true),
            Deposits(true, 446_463, 9, false),
            Loads(2, 0, Ok(2)),
            Loads(2, 65472, Ok(3)),
            Loads(2, 65535, Ok(4)),
            Loads(3, 0, Ok(7)),
            Loads(1, 0, Ok(8)),
            Has(true, 1152, 3),
            Has(true, 2560, 7),
            Ends(3, Some(4006)),
            Deposits(true, 2560, 10, false),
            Deposits(true, 3072, 11, false),
            Deposits(true, 3583, 12, false),
            Loads(2, 0, Ok(2)),
        ],
    },
];

/// In a core of 64 clicks slot 1 has clicks 1 to 56: 1,024 bytes of u area, 1,280 of data, 1,280 of stack. Slot 2 stands in
/// blocks 4000 to 4002, with 128 bytes of data and 64 of stack. What is kept of slot 3 is in block 4006, behind three blocks
/// that it has given back.
static BESIDE: [Step; 4] = [
    Makes(1, 20, 20, Some(Core(1))),
    Makes(2, 2, 1, Some(Swap(4000))),
    Makes(3, 2, 1, Some(Swap(4003))),
    Ends(3, Some(4006)),
];

/// Bytes that are put there, one after the other, to a place of core or with `true` of the swap area; and whether each is.
static PUT: [(bool, u32, u8, bool); 23] = [
    (false, 0, 1, false),
    (false, 1023, 2, false),
    (false, 1024, 3, true),
    (false, 1024, 4, true),
    (false, 2303, 5, true),
    (false, 2304, 6, true),
    (false, 3583, 7, true),
    (false, 3584, 8, false),
    (false, 4095, 9, false),
    (true, 0, 10, false),
    (true, 1023, 11, false),
    (true, 1024, 12, true),
    (true, 1151, 13, true),
    (true, 1152, 14, true),
    (true, 1215, 15, true),
    (true, 1216, 16, false),
    (true, 1535, 17, false),
    (true, 1536, 18, false),
    (true, 2560, 19, false),
    (true, 3072, 20, false),
    (true, 3583, 21, false),
    (true, 3584, 22, false),
    (true, 446_463, 23, false),
];

/// Whether the bytes are as before but for one, where one is put.
fn are_but_for(before: &[u8], after: &[u8], put: Option<(usize, u8)>) -> bool {
    if before.len() != after.len() {
        return false;
    }
    for k in 0..before.len() {
        let byte = match put {
            Some((at, byte)) if at == k => byte,
            _ => before[k],
        };
        if after[k] != byte {
            return false;
        }
    }
    true
}

/// Puts a byte. The answer is whether it was put or not as it must be, and no other byte of core and of the swap area changed.
fn puts_that_byte_alone(
    alloc: Global,
    table: &mut Table,
    place: (bool, u32),
    byte: u8,
    put: bool,
) -> Result<bool, AllocError> {
    let (swap, at) = place;
    let core = table.core().to_vec(alloc)?;
    let area = table.swap().to_vec(alloc)?;
    let answered = table.deposit(swap, at, byte) == Some(put);
    let (in_core, in_area) = match (put, swap) {
        (false, _) => (None, None),
        (true, false) => (Some((at as usize, byte)), None),
        (true, true) => (None, Some((at as usize, byte))),
    };
    Ok(
        answered
            && are_but_for(&core, table.core(), in_core)
            && are_but_for(&area, table.swap(), in_area),
    )
}

/// The number of the first byte with which it isn't so.
fn first_other(alloc: Global) -> Result<Option<usize>, AllocError> {
    let mut table = Table::new(alloc, 64)?;
    if first_of(&mut table, &BESIDE).is_some() {
        return Ok(Some(usize::MAX));
    }
    for (k, (swap, at, byte, put)) in PUT.iter().enumerate() {
        if !puts_that_byte_alone(alloc, &mut table, (*swap, *at), *byte, *put)? {
            return Ok(Some(k));
        }
    }
    Ok(None)
}

#[test]
fn no_other_byte_of_core_or_swap_area_changes(rt: HostRuntime) {
    tell::step(&rt, first_other(rt.alloc()).expect(&rt, "memory"));
}

#[test]
fn a_byte_that_is_put_is_the_image_s(rt: HostRuntime) {
    judge(&rt, rt.alloc(), &DEPOSITS);
}
