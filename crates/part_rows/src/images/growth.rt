//! What becomes of images whose sizes change: `expand` in Lions' Commentary, `slp.c`, and `grow` and `sbreak`. Images
//! are told by their clicks of data and of stack, of 64 bytes each; their sizes are sixteen clicks more. The swap area
//! is the blocks 4000 to 4871, of eight clicks each.
use crate::images::scenes::Step::{Ends, Forks, HasRoom, Loads, Makes, Resizes, Stands, Stores};
use crate::images::scenes::{Scene, first_of, judge};
use crate::images::table::Table;
use crate::tell;
use std::alloc::{AllocError, Global};
use v6_base::Place::{Core, Swap};
use v6_base::Trap::Segment;

static BYTES: [Scene; 5] = [
    Scene {
        name: "data grow at their end",
        core: 1200,
        steps: &[
            Makes(1, 1, 1, Some(Core(1))),
            Stores(1, 0, 11),
            Stores(1, 63, 12),
            Stores(1, 65472, 13),
            Stores(1, 65535, 14),
            // 18 clicks stand at 1 and 16 at 19.
            Makes(2, 0, 0, Some(Core(19))),
            Resizes(1, 3, 1, Some(Core(35))),
            Stands(1, Some(Core(35))),
            Loads(1, 0, Ok(11)),
            Loads(1, 63, Ok(12)),
            Loads(1, 64, Ok(0)),
            Loads(1, 191, Ok(0)),
            Loads(1, 192, Err(Segment)),
            Loads(1, 65471, Err(Segment)),
            Loads(1, 65472, Ok(13)),
            Loads(1, 65535, Ok(14)),
            Stands(2, Some(Core(19))),
            Loads(2, 0, Err(Segment)),
            // The old place is free then.
            Makes(3, 1, 1, Some(Core(1))),
        ],
    },
    Scene {
        name: "the stack grows at its low end",
        core: 1200,
        steps: &[
            Makes(1, 1, 1, Some(Core(1))),
            Stores(1, 0, 11),
            Stores(1, 63, 12),
            Stores(1, 65472, 13),
            Stores(1, 65535, 14),
            Resizes(1, 1, 3, Some(Core(19))),
            Loads(1, 0, Ok(11)),
            Loads(1, 63, Ok(12)),
            Loads(1, 64, Err(Segment)),
            Loads(1, 65343, Err(Segment)),
            Loads(1, 65344, Ok(0)),
            Loads(1, 65471, Ok(0)),
            Loads(1, 65472, Ok(13)),
            Loads(1, 65535, Ok(14)),
        ],
    },
    Scene {
        name: "data and stack grow at once",
        core: 1200,
        steps: &[
            Makes(1, 2, 2, Some(Core(1))),
            Stores(1, 127, 1),
            Stores(1, 65408, 2),
            Resizes(1, 4, 5, Some(Core(21))),
            Loads(1, 127, Ok(1)),
            Loads(1, 128, Ok(0)),
            Loads(1, 255, Ok(0)),
            Loads(1, 256, Err(Segment)),
            Loads(1, 65215, Err(Segment)),
            Loads(1, 65216, Ok(0)),
            Loads(1, 65407, Ok(0)),
            Loads(1, 65408, Ok(2)),
            Loads(1, 65535, Ok(0)),
        ],
    },
    Scene {
        name: "data are cut at their end",
        core: 1200,
        steps: &[
            Makes(1, 4, 2, Some(Core(1))),
            Stores(1, 127, 2),
            Stores(1, 128, 3),
            Stores(1, 255, 4),
            Stores(1, 65408, 5),
            Stores(1, 65535, 6),
            Resizes(1, 2, 2, Some(Core(1))),
            Loads(1, 127, Ok(2)),
            Loads(1, 128, Err(Segment)),
            Loads(1, 65407, Err(Segment)),
            Loads(1, 65408, Ok(5)),
            Loads(1, 65535, Ok(6)),
            // Its tail, the clicks 21 and 22, is free.
            Makes(2, 0, 0, Some(Core(21))),
            // What was cut is zeros when it comes again.
            Resizes(1, 4, 2, Some(Core(37))),
            Loads(1, 127, Ok(2)),
            Loads(1, 128, Ok(0)),
            Loads(1, 255, Ok(0)),
            Loads(1, 65408, Ok(5)),
        ],
    },
    Scene {
        name: "the stack is cut at its low end",
        core: 1200,
        steps: &[
            Makes(1, 2, 4, Some(Core(1))),
            Stores(1, 127, 1),
            Stores(1, 65280, 2),
            Stores(1, 65407, 3),
            Stores(1, 65408, 4),
            Stores(1, 65535, 5),
            Resizes(1, 2, 2, Some(Core(1))),
            Loads(1, 127, Ok(1)),
            Loads(1, 128, Err(Segment)),
            Loads(1, 65407, Err(Segment)),
            Loads(1, 65408, Ok(4)),
            Loads(1, 65535, Ok(5)),
            Makes(2, 0, 0, Some(Core(21))),
            Resizes(1, 2, 4, Some(Core(37))),
            Loads(1, 65280, Ok(0)),
            Loads(1, 65407, Ok(0)),
            Loads(1, 65408, Ok(4)),
            Loads(1, 65535, Ok(5)),
        ],
    },
];

static PLACES: [Scene; 5] = [
    Scene {
        name: "an image of the same size stays, whatever room there is",
        core: 64,
        steps: &[
            Makes(1, 1, 20, Some(Core(1))),
            Makes(2, 11, 0, Some(Core(38))),
            HasRoom(1, false),
            Stores(1, 0, 1),
            Stores(1, 65535, 2),
            Resizes(1, 1, 20, Some(Core(1))),
            // Ten clicks of the stack go, and as many of data come.
            Resizes(1, 11, 10, Some(Core(1))),
            Loads(1, 0, Ok(1)),
            Loads(1, 64, Ok(0)),
            Loads(1, 703, Ok(0)),
            Loads(1, 704, Err(Segment)),
            Loads(1, 64895, Err(Segment)),
            Loads(1, 64896, Ok(0)),
            Loads(1, 65535, Ok(2)),
            Resizes(1, 1, 20, Some(Core(1))),
            Loads(1, 65535, Ok(2)),
        ],
    },
    Scene {
        name: "no hole in core",
        core: 64,
        steps: &[
            Makes(1, 1, 20, Some(Core(1))),
            Stores(1, 0, 7),
            Stores(1, 65535, 8),
            // 27 clicks are left, and 38 asked for.
            Resizes(1, 2, 20, Some(Swap(4000))),
            HasRoom(64, true),
            Loads(1, 0, Ok(7)),
            Loads(1, 64, Ok(0)),
            Loads(1, 65535, Ok(8)),
            // Core comes first when it grows again.
            Resizes(1, 3, 20, Some(Core(1))),
            Loads(1, 0, Ok(7)),
            Loads(1, 65535, Ok(8)),
            // The blocks are free. 41 clicks are six blocks, and 40 are five.
            Makes(2, 5, 20, Some(Swap(4000))),
            Makes(3, 5, 20, Some(Swap(4006))),
            Resizes(2, 4, 20, Some(Swap(4000))),
            Ends(3, Some(4005)),
        ],
    },
    Scene {
        name: "in core the old place is not free while a new one is found",
        core: 64,
        steps: &[
            Makes(1, 10, 10, Some(Core(1))),
            Resizes(1, 1, 1, Some(Core(1))),
            // 46 clicks are free, from 19 on.
            Resizes(1, 15, 15, Some(Core(19))),
            Resizes(1, 14, 15, Some(Core(19))),
            // The image has 45 clicks, and 18 are free before it and one after it.
            HasRoom(18, true),
            HasRoom(19, false),
            Resizes(1, 15, 15, Some(Swap(4000))),
        ],
    },
    Scene {
        name: "in the swap area the old place is not free while a new one is found",
        core: 64,
        steps: &[
            Makes(1, 24, 24, Some(Core(1))),
            Makes(2, 0, 0, Some(Swap(4000))),
            // 16 clicks are two blocks, and 17 are three.
            Resizes(2, 1, 0, Some(Swap(4002))),
            // 18 are three too, but it grows.
            Resizes(2, 2, 0, Some(Swap(4005))),
            Makes(3, 32, 0, Some(Swap(4008))),
            Makes(4, 24, 0, Some(Swap(4000))),
        ],
    },
    Scene {
        name: "no room anywhere",
        core: 900,
        steps: &[
            Makes(2, 1, 20, Some(Core(1))),
            // 836 clicks are 105 blocks.
            Makes(1, 800, 20, Some(Core(38))),
            Forks(1, 3, Some(Swap(4000))),
            Forks(1, 4, Some(Swap(4105))),
            Forks(1, 5, Some(Swap(4210))),
            Forks(1, 6, Some(Swap(4315))),
            Forks(1, 7, Some(Swap(4420))),
            Forks(1, 8, Some(Swap(4525))),
            Forks(1, 9, Some(Swap(4630))),
            Forks(1, 10, Some(Swap(4735))),
            Makes(11, 220, 20, Some(Swap(4840))),
            Stores(2, 0, 1),
            Stores(2, 65535, 2),
            Stores(11, 0, 3),
            // 27 clicks of core are left and no block: nothing changes.
            Resizes(2, 2, 20, None),
            Resizes(2, 1, 21, None),
            Resizes(11, 221, 20, None),
            Stands(2, Some(Core(1))),
            Stands(11, Some(Swap(4840))),
            HasRoom(27, true),
            HasRoom(28, false),
            Loads(2, 0, Ok(1)),
            Loads(2, 64, Err(Segment)),
            Loads(2, 64255, Err(Segment)),
            Loads(2, 64256, Ok(0)),
            Loads(2, 65535, Ok(2)),
            Loads(11, 0, Ok(3)),
            Loads(11, 14080, Err(Segment)),
            // To shrink needs no room.
            Resizes(2, 0, 0, Some(Core(1))),
            Resizes(2, 1, 0, Some(Core(17))),
            Resizes(11, 219, 20, Some(Swap(4840))),
        ],
    },
];

#[test]
fn images_hold_what_they_held(rt: HostRuntime) {
    judge(&rt, rt.alloc(), &BYTES);
}

#[test]
fn images_that_grow_are_placed(rt: HostRuntime) {
    judge(&rt, rt.alloc(), &PLACES);
}

/// Clicks of core, and the most that an image may have.
static LIMITS: [(u16, u16); 5] = [
    (64, 64),
    (2047, 2047),
    (2048, 2048),
    (2049, 2048),
    (3968, 2048),
];

fn has_limit(alloc: Global, core: u16, most: u16) -> Result<bool, AllocError> {
    if core < 64 || core > 3968 {
        return Ok(false);
    }
    Ok(Table::new(alloc, core)?.limit() == most)
}

#[test]
fn images_have_a_limit(rt: HostRuntime) {
    for (n, row) in LIMITS.iter().enumerate() {
        tell::row(&rt, n, has_limit(rt.alloc(), row.0, row.1));
    }
}

/// In a core of 64 clicks.
fn is_allowed_to_the_limit(table: &mut Table) -> bool {
    first_of(table, &[Makes(1, 1, 20, Some(Core(1)))]).is_none()
        && table.resize(1, 29, 20).is_none()
        && first_of(table, &[Resizes(1, 28, 20, Some(Swap(4000)))]).is_none()
        && table.resize(2, 1, 20).is_none()
}

#[test]
fn sizes_up_to_the_limit_are_allowed(rt: HostRuntime) {
    let mut table = Table::new(rt.alloc(), 64).expect(&rt, "memory");
    tell::plain(&rt, is_allowed_to_the_limit(&mut table));
}
