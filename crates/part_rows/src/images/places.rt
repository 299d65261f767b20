//! Where images stand: `malloc` in Lions' Commentary. Images are told by their clicks of data and of stack; their sizes
//! are sixteen clicks more. The swap area is the blocks 4000 to 4871, of eight clicks each.
use crate::images::scenes::Step::{Bares, Ends, Forks, HasRoom, Makes, Reaps, Stands};
use crate::images::scenes::{Scene, first_of, judge};
use crate::images::table::Table;
use crate::tell;
use v6_base::Place::{Core, Swap};

static IN_CORE: [Scene; 5] = [
    Scene {
        name: "before, between and after images",
        core: 1200,
        steps: &[
            Makes(1, 1, 20, Some(Core(1))),
            Makes(2, 1, 20, Some(Core(38))),
            Makes(3, 1, 20, Some(Core(75))),
            Bares(2),
            // 37 clicks are free from 38 on: 21 and then 16.
            Makes(2, 5, 0, Some(Core(38))),
            Makes(4, 0, 0, Some(Core(59))),
            Makes(5, 0, 0, Some(Core(112))),
            // 37 are free at the front: 38 don't fit, 37 do.
            Bares(1),
            Makes(1, 2, 20, Some(Core(128))),
            Makes(6, 1, 20, Some(Core(1))),
            Makes(7, 0, 0, Some(Core(166))),
        ],
    },
    Scene {
        name: "holes side by side are one",
        core: 1200,
        steps: &[
            Makes(1, 1, 20, Some(Core(1))),
            Makes(2, 1, 20, Some(Core(38))),
            Makes(3, 1, 20, Some(Core(75))),
            Bares(1),
            Bares(2),
            // 74 clicks are free from 1 on.
            Makes(4, 38, 21, Some(Core(112))),
            Makes(5, 38, 20, Some(Core(1))),
        ],
    },
    Scene {
        name: "an image after it was bare",
        core: 1200,
        steps: &[
            Stands(1, None),
            Makes(1, 1, 20, Some(Core(1))),
            Stands(1, Some(Core(1))),
            Bares(1),
            Stands(1, None),
            Makes(1, 100, 20, Some(Core(1))),
            Stands(1, Some(Core(1))),
        ],
    },
    Scene {
        name: "the last click of core",
        core: 64,
        steps: &[
            HasRoom(64, true),
            HasRoom(65, false),
            Makes(1, 1, 20, Some(Core(1))),
            HasRoom(27, true),
            HasRoom(28, false),
            Makes(2, 11, 0, Some(Core(38))),
            HasRoom(0, true),
            HasRoom(1, false),
            Bares(1),
            HasRoom(37, true),
            HasRoom(38, false),
        ],
    },
    Scene {
        name: "the last slot takes its place in core",
        core: 1200,
        steps: &[
            Makes(49, 1, 20, Some(Core(1))),
            Makes(1, 1, 20, Some(Core(38))),
            Stands(49, Some(Core(1))),
        ],
    },
];

static IN_SWAP: [Scene; 6] = [
    Scene {
        name: "no hole in core",
        core: 64,
        steps: &[
            Makes(1, 1, 20, Some(Core(1))),
            // 37 clicks are five blocks.
            Forks(1, 2, Some(Swap(4000))),
            Forks(1, 3, Some(Swap(4005))),
            Forks(2, 4, Some(Swap(4010))),
            Bares(3),
            // 40 clicks are five blocks, and 41 are six.
            Makes(3, 5, 20, Some(Swap(4015))),
            Makes(5, 4, 20, Some(Swap(4005))),
            // Core comes first.
            Bares(1),
            Forks(2, 1, Some(Core(1))),
            Stands(2, Some(Swap(4000))),
        ],
    },
    Scene {
        name: "large images until the swap area is full",
        core: 900,
        steps: &[
            Makes(2, 1, 20, Some(Core(1))),
            // 836 clicks are 105 blocks.
            Makes(1, 800, 20, Some(Core(38))),
            Forks(1, 3, Some(Swap(4000))),
            Forks(1, 4, Some(Swap(4105))),
            Forks(1, 5, Some(Swap(4210))),
            Forks(1, 6, Some(Swap(4315))),
            Forks(1, 7, Some(Swap(4420))),
            Forks(1, 8, Some(Swap(4525))),
            Forks(1, 9, Some(Swap(4630))),
            Forks(1, 10, Some(Swap(4735))),
            // 32 blocks are left.
            Forks(1, 11, None),
            Stands(11, None),
            Makes(11, 221, 20, None),
            Stands(11, None),
            Makes(11, 220, 20, Some(Swap(4840))),
            // No block is left, and 27 clicks of core.
            Makes(12, 12, 0, None),
            Ends(2, None),
            Stands(2, Some(Core(1))),
            Makes(12, 11, 0, Some(Core(874))),
            Bares(6),
            Ends(2, Some(4315)),
        ],
    },
    Scene {
        name: "the block of a process that has ended",
        core: 64,
        steps: &[
            Makes(1, 1, 20, Some(Core(1))),
            Ends(1, Some(4000)),
            Stands(1, Some(Swap(4000))),
            // Core is free again, and the block is not.
            Makes(2, 1, 20, Some(Core(1))),
            Forks(2, 3, Some(Swap(4001))),
            // The block is found while the image stands yet.
            Ends(3, Some(4006)),
            Stands(3, Some(Swap(4006))),
            Forks(2, 4, Some(Swap(4001))),
            Reaps(1),
            Stands(1, None),
            Ends(4, Some(4000)),
            Reaps(3),
            Reaps(4),
            Forks(2, 5, Some(Swap(4000))),
        ],
    },
    Scene {
        name: "an image that goes from the swap area to core",
        core: 64,
        steps: &[
            Makes(1, 1, 20, Some(Core(1))),
            Forks(1, 2, Some(Swap(4000))),
            Bares(1),
            Bares(2),
            Makes(2, 1, 20, Some(Core(1))),
            Makes(1, 1, 20, Some(Swap(4000))),
        ],
    },
    Scene {
        name: "the last slot takes its blocks",
        core: 64,
        steps: &[
            Makes(1, 1, 20, Some(Core(1))),
            Makes(49, 1, 20, Some(Swap(4000))),
            Makes(2, 1, 20, Some(Swap(4005))),
            Stands(49, Some(Swap(4000))),
        ],
    },
    Scene {
        name: "the last slot's process has ended",
        core: 64,
        steps: &[
            Makes(49, 1, 20, Some(Core(1))),
            Ends(49, Some(4000)),
            Makes(1, 1, 20, Some(Core(1))),
            Makes(2, 1, 20, Some(Swap(4001))),
            Stands(49, Some(Swap(4000))),
            Ends(2, Some(4006)),
        ],
    },
];

#[test]
fn images_stand_in_core(rt: HostRuntime) {
    judge(&rt, rt.alloc(), &IN_CORE);
}

#[test]
fn images_stand_in_the_swap_area(rt: HostRuntime) {
    judge(&rt, rt.alloc(), &IN_SWAP);
}

/// Images of 37 clicks in the slots from 1 on, each behind the one before it.
fn has_all_slots(table: &mut Table) -> bool {
    if first_of(table, &[Makes(1, 1, 20, Some(Core(1)))]).is_some() {
        return false;
    }
    for s in 2..50u8 {
        let place = Core(1 + 37 * (u16::from(s) - 1));
        if first_of(table, &[Forks(1, s, Some(place))]).is_some() {
            return false;
        }
    }
    let places = [
        Stands(2, Some(Core(38))),
        Stands(3, Some(Core(75))),
        Stands(49, Some(Core(1777))),
    ];
    first_of(table, &places).is_none()
}

#[test]
fn a_large_core_has_all_slots(rt: HostRuntime) {
    let mut table = Table::new(rt.alloc(), 3968).expect(&rt, "memory");
    tell::plain(&rt, has_all_slots(&mut table));
}
