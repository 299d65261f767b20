//! First fit over a map of what is free: `malloc` and `mfree` in Lions' Commentary, `malloc.c`. Units are clicks of core or
//! blocks of the swap area.
use crate::images::maps::Step::{Gives, Has, Scatters, Takes};
use crate::tell;
use map_fit::Holes;
use std::process::Abort;

/// What is asked of a map, and what must come of it.
#[derive(Clone, Copy)]
enum Step {
    /// That many units are asked for: where they begin, or `None` where no hole has them.
    Takes(u16, Option<u16>),
    /// Units that were taken are given back: the first, and how many.
    Gives(u16, u16),
    /// Single units are given back: the first, and how many, each two after the one before.
    Scatters(u16, u16),
    /// There are that many holes.
    Has(usize),
}

/// A map of units that are free, and what is asked of it.
struct Map {
    name: &'static str,
    first: u16,
    count: u16,
    steps: &'static [Step],
}

/// In the units 1 to 64, as a core of 64 clicks has them.
static FITS: [Map; 5] = [
    Map {
        name: "the front of the first hole that is large enough, not of the best",
        first: 1,
        count: 64,
        steps: &[
            Has(1),
            Takes(37, Some(1)),
            Takes(27, Some(38)),
            Has(0),
            Takes(1, None),
            Gives(1, 37),
            Gives(60, 5),
            Has(2),
            Takes(38, None),
            Takes(5, Some(1)),
            Takes(5, Some(6)),
            // 27 are left of the first hole, 11 to 37.
            Takes(28, None),
            Takes(27, Some(11)),
            Has(1),
            Takes(5, Some(60)),
            Takes(1, None),
        ],
    },
    Map {
        name: "a hole that is too small is passed over",
        first: 1,
        count: 64,
        steps: &[
            Takes(10, Some(1)),
            Takes(10, Some(11)),
            Takes(10, Some(21)),
            Gives(1, 10),
            Takes(11, Some(31)),
            Takes(9, Some(1)),
            Takes(2, Some(42)),
            Takes(1, Some(10)),
        ],
    },
    Map {
        name: "all, and nothing more",
        first: 1,
        count: 64,
        steps: &[
            Takes(65, None),
            Has(1),
            Takes(64, Some(1)),
            Takes(1, None),
            Gives(1, 64),
            Takes(64, Some(1)),
        ],
    },
    Map {
        name: "the blocks of the swap area, 4000 to 4871",
        first: 4000,
        count: 872,
        steps: &[
            Takes(5, Some(4000)),
            Takes(1, Some(4005)),
            Takes(866, Some(4006)),
            Takes(1, None),
            Gives(4871, 1),
            Takes(2, None),
            Takes(1, Some(4871)),
        ],
    },
    Map {
        name: "the last units that there can be",
        first: 65_533,
        count: 2,
        steps: &[
            Takes(1, Some(65_533)),
            Takes(1, Some(65_534)),
            Gives(65_534, 1),
            Gives(65_533, 1),
            Has(1),
            Takes(2, Some(65_533)),
        ],
    },
];

static NEIGHBOURS: [Map; 5] = [
    Map {
        name: "with the holes before and after it",
        first: 1,
        count: 30,
        steps: &[
            Takes(10, Some(1)),
            Takes(10, Some(11)),
            Takes(10, Some(21)),
            Gives(1, 10),
            Gives(21, 10),
            Has(2),
            Takes(11, None),
            Gives(11, 10),
            Has(1),
            Takes(30, Some(1)),
        ],
    },
    Map {
        name: "with the hole before it alone",
        first: 1,
        count: 40,
        steps: &[
            Takes(40, Some(1)),
            Gives(1, 10),
            Gives(31, 10),
            Gives(11, 10),
            Has(2),
            Takes(20, Some(1)),
            Takes(11, None),
            Takes(10, Some(31)),
        ],
    },
    Map {
        name: "with the hole after it alone",
        first: 1,
        count: 40,
        steps: &[
            Takes(40, Some(1)),
            Gives(1, 10),
            Gives(31, 10),
            Gives(21, 10),
            Has(2),
            Takes(20, Some(21)),
            Takes(11, None),
            Takes(10, Some(1)),
        ],
    },
    Map {
        name: "with none, one unit away from each",
        first: 1,
        count: 12,
        steps: &[
            Takes(12, Some(1)),
            Gives(1, 4),
            Gives(9, 4),
            Gives(6, 2),
            Has(3),
            Takes(5, None),
            Gives(5, 1),
            Has(2),
            Takes(7, Some(1)),
            Gives(8, 1),
            Has(1),
            Takes(5, Some(8)),
        ],
    },
    Map {
        name: "one unit with its neighbours",
        first: 1,
        count: 5,
        steps: &[
            Takes(5, Some(1)),
            Gives(1, 1),
            Gives(2, 1),
            Has(1),
            Gives(5, 1),
            Has(2),
            Gives(4, 1),
            Has(2),
            Gives(3, 1),
            Has(1),
            Takes(5, Some(1)),
        ],
    },
];

static ROOM: [Map; 3] = [
    Map {
        // Between 91 holes are 90 units: as many as there are ranges of fifty images and forty texts.
        name: "ninety-one holes",
        first: 1,
        count: 181,
        steps: &[
            Takes(181, Some(1)),
            Scatters(1, 91),
            Has(91),
            Takes(2, None),
            Takes(1, Some(1)),
            Has(90),
            Gives(1, 1),
            Gives(90, 1),
            Has(90),
            Takes(3, Some(89)),
            Has(89),
        ],
    },
    Map {
        name: "a hundred holes",
        first: 4000,
        count: 199,
        steps: &[
            Takes(199, Some(4000)),
            Scatters(4000, 100),
            Has(100),
            Takes(1, Some(4000)),
            Has(99),
            Gives(4000, 1),
            Has(100),
            Takes(2, None),
        ],
    },
    Map {
        name: "a map of nothing",
        first: 1,
        count: 0,
        steps: &[Has(0), Takes(1, None)],
    },
];

/// Whether units can be given back, by what `mfree` asks of its caller; and then they are.
fn gives(holes: &mut Holes, at: u16, n: u16) -> bool {
    if n == 0 || at > u16::MAX - n || holes.count() >= 100 {
        return false;
    }
    let may = holes.is_taken(at, n);
    if may {
        holes.give(at, n);
    }
    may
}

fn scatters(holes: &mut Holes, at: u16, n: u16) -> bool {
    for k in 0..n {
        if !gives(holes, at.wrapping_add(k).wrapping_add(k), 1) {
            return false;
        }
    }
    true
}

fn holds(holes: &mut Holes, step: Step) -> bool {
    match step {
        Takes(n, at) => n > 0 && holes.take(n) == at,
        Gives(at, n) => gives(holes, at, n),
        Scatters(at, n) => scatters(holes, at, n),
        Has(n) => holes.count() == n,
    }
}

/// The number of the first step that does not hold, from 0 on.
fn first_failure(map: &Map) -> Option<usize> {
    if map.first > u16::MAX - map.count {
        return Some(0);
    }
    let mut holes = Holes::new(map.first, map.count);
    for (k, step) in map.steps.iter().enumerate() {
        if !holds(&mut holes, *step) {
            return Some(k);
        }
    }
    None
}

/// Tells the first step that does not hold.
fn judge(rt: &impl Abort, maps: &[Map]) {
    for map in maps {
        tell::step_of(rt, map.name, first_failure(map));
    }
}

#[test]
fn the_first_hole_that_is_large_enough_is_taken(rt: HostRuntime) {
    judge(&rt, &FITS);
}

#[test]
fn what_comes_back_is_one_hole_with_its_neighbours(rt: HostRuntime) {
    judge(&rt, &NEIGHBOURS);
}

#[test]
fn there_is_room_for_a_hundred_holes(rt: HostRuntime) {
    judge(&rt, &ROOM);
}
