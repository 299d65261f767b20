//! What images hold, and what is kept of processes that have ended.
use crate::images::scenes::Step::{Bares, Ends, Forks, Loads, Makes, Resizes, Stores};
use crate::images::scenes::{Scene, Step, first_of, judge};
use crate::images::table::{End, Table};
use crate::tell;
use std::alloc::{AllocError, Global};
use v6_base::Place::{Core, Swap};
use v6_base::Trap::Segment;

static MEMORY: [Scene; 5] = [
    Scene {
        name: "a copy is whole, and one of its own",
        core: 64,
        steps: &[
            Makes(1, 2, 1, Some(Core(1))),
            Stores(1, 0, 11),
            Stores(1, 1, 12),
            Stores(1, 126, 13),
            Stores(1, 127, 14),
            Stores(1, 65472, 15),
            Stores(1, 65534, 16),
            Stores(1, 65535, 17),
            Forks(1, 2, Some(Core(20))),
            Forks(1, 3, Some(Core(39))),
            Forks(1, 4, Some(Swap(4000))),
            Loads(4, 0, Ok(11)),
            Loads(4, 1, Ok(12)),
            Loads(4, 2, Ok(0)),
            Loads(4, 126, Ok(13)),
            Loads(4, 127, Ok(14)),
            Loads(4, 128, Err(Segment)),
            Loads(4, 65471, Err(Segment)),
            Loads(4, 65472, Ok(15)),
            Loads(4, 65534, Ok(16)),
            Loads(4, 65535, Ok(17)),
            Stores(4, 0, 21),
            Stores(1, 65535, 22),
            Loads(1, 0, Ok(11)),
            Loads(2, 0, Ok(11)),
            Loads(4, 0, Ok(21)),
            Loads(1, 65535, Ok(22)),
            Loads(2, 65535, Ok(17)),
            Loads(4, 65535, Ok(17)),
        ],
    },
    Scene {
        // A segment is 128 clicks: four and more of them, four, and seven.
        name: "a copy of large data",
        core: 3968,
        steps: &[
            Makes(1, 600, 1, Some(Core(1))),
            Stores(1, 38_399, 7),
            Forks(1, 2, Some(Core(618))),
            Loads(2, 38_399, Ok(7)),
            Loads(2, 38_400, Err(Segment)),
            Bares(1),
            Bares(2),
            Makes(1, 512, 1, Some(Core(1))),
            Stores(1, 32_767, 8),
            Forks(1, 2, Some(Core(530))),
            Loads(2, 32_767, Ok(8)),
            Loads(2, 32_768, Err(Segment)),
            Bares(1),
            Bares(2),
            Makes(1, 896, 1, Some(Core(1))),
            Stores(1, 57_343, 9),
            Forks(1, 2, Some(Core(914))),
            Loads(2, 57_343, Ok(9)),
            Loads(2, 57_344, Err(Segment)),
        ],
    },
    Scene {
        // One click more than a segment.
        name: "a copy of a large stack",
        core: 1200,
        steps: &[
            Makes(1, 1, 129, Some(Core(1))),
            Stores(1, 57_280, 5),
            Stores(1, 65_535, 6),
            Forks(1, 2, Some(Core(147))),
            Loads(2, 57_279, Err(Segment)),
            Loads(2, 57_280, Ok(5)),
            Loads(2, 65_535, Ok(6)),
        ],
    },
    Scene {
        name: "a copy after a larger image",
        core: 64,
        steps: &[
            Makes(2, 8, 8, Some(Core(1))),
            Stores(2, 64, 9),
            Stores(2, 65024, 9),
            Bares(2),
            Makes(1, 1, 1, Some(Core(1))),
            Stores(1, 63, 1),
            Stores(1, 65472, 2),
            Forks(1, 2, Some(Core(19))),
            Loads(2, 63, Ok(1)),
            Loads(2, 64, Err(Segment)),
            Loads(2, 65471, Err(Segment)),
            Loads(2, 65472, Ok(2)),
        ],
    },
    Scene {
        name: "a new image is zeros",
        core: 64,
        steps: &[
            Makes(1, 2, 2, Some(Core(1))),
            Stores(1, 0, 1),
            Stores(1, 127, 2),
            Stores(1, 65408, 3),
            Stores(1, 65535, 4),
            Bares(1),
            Makes(1, 3, 3, Some(Core(1))),
            Loads(1, 0, Ok(0)),
            Loads(1, 127, Ok(0)),
            Loads(1, 191, Ok(0)),
            Loads(1, 192, Err(Segment)),
            Loads(1, 65343, Err(Segment)),
            Loads(1, 65344, Ok(0)),
            Loads(1, 65408, Ok(0)),
            Loads(1, 65535, Ok(0)),
        ],
    },
];

#[test]
fn images_hold_what_they_must(rt: HostRuntime) {
    judge(&rt, rt.alloc(), &MEMORY);
}

/// Each byte is different.
const END: End = End {
    status: 0x393a,
    user_time: 0x2d2e,
    system_time: 0x2f30,
    child_user: 0x3132_3334,
    child_system: 0x3536_3738,
};

/// The bytes of such a process with a data click and a stack of twenty, from those of its processor status word on; all
/// others are 0. docs/manual/u-area.md has their table.
static ENDED: [(usize, &'static [u8]); 3] = [
    (16, b"\x00\xf0"),
    (26, b"\x01\x00\x14\x00"),
    (
        48,
        b"\x2e\x2d\x30\x2f\x32\x31\x34\x33\x36\x35\x38\x37\x3a\x39",
    ),
];

fn byte_of(pieces: &[(usize, &[u8])], at: usize) -> u8 {
    for (from, bytes) in pieces {
        if at >= *from && at - *from < bytes.len() {
            return bytes[at - *from];
        }
    }
    0
}

fn are_bytes(half: &[u8; 512], pieces: &[(usize, &[u8])]) -> bool {
    for (at, byte) in half.iter().enumerate() {
        if *byte != byte_of(pieces, at) {
            return false;
        }
    }
    true
}

/// Whether this is what is kept of a process that comes to `END`, when these steps have been taken; and nothing is kept then.
fn half_is(alloc: Global, steps: &[Step], pieces: &[(usize, &[u8])]) -> Result<bool, AllocError> {
    let mut table = Table::new(alloc, 64)?;
    if first_of(&mut table, &[Makes(1, 1, 20, Some(Core(1)))]).is_some()
        || table.set_end(1, END).is_none()
        || first_of(&mut table, steps).is_some()
    {
        return Ok(false);
    }
    Ok(match table.reap(1) {
        Some(half) => are_bytes(&half, pieces) && table.place(1).is_none(),
        None => false,
    })
}

#[test]
fn half_of_a_u_area_is_kept(rt: HostRuntime) {
    tell::all(&rt, half_is(rt.alloc(), &[Ends(1, Some(4000))], &ENDED));
}

/// Three clicks of data and a stack of twenty-one, and else the same.
static ENDED_AFTER_GROWTH: [(usize, &'static [u8]); 3] = [
    (16, b"\x00\xf0"),
    (26, b"\x03\x00\x15\x00"),
    (
        48,
        b"\x2e\x2d\x30\x2f\x32\x31\x34\x33\x36\x35\x38\x37\x3a\x39",
    ),
];

#[test]
fn growth_leaves_all_else_of_a_u_area(rt: HostRuntime) {
    let steps = [Resizes(1, 3, 21, Some(Swap(4000))), Ends(1, Some(4005))];
    tell::all(&rt, half_is(rt.alloc(), &steps, &ENDED_AFTER_GROWTH));
}
