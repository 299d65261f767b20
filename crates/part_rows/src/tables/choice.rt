//! Priorities, and who runs next: `setpri` and `swtch` of Lions' Commentary.
use super::Step::{Pick, Setpri};
use super::{FOR_WORK, Numbers, OUT, READY, START, Slots, WOKEN, leaves};
use crate::tell;
use pick_rules::Stat::{Sleeping, Waiting, Zombie};
use pick_rules::TableRow;
use v6_base::Slot;

/// Of slot 1 its nice and cpu, the priority of the one that was chosen last; and then the slot's priority, and whether
/// a new choice is asked for.
static PRIORITIES: [(i8, u8, i8, i8, bool); 14] = [
    (0, 0, 100, 100, false),
    (0, 0, 99, 100, true),
    (0, 15, 100, 100, false),
    (0, 16, 100, 101, true),
    (0, 31, 100, 101, true),
    (0, 255, 114, 115, true),
    (0, 255, 115, 115, false),
    (-20, 0, 0, 80, true),
    (-20, 48, 83, 83, false),
    (20, 111, 125, 126, true),
    (20, 112, 126, 127, true),
    (20, 127, 127, 127, false),
    (20, 128, 126, 127, true),
    (20, 255, 127, 127, false),
];

fn priority_holds(row: (i8, u8, i8, i8, bool)) -> bool {
    let (nice, cpu, curpri, pri, runrun) = row;
    let before = Numbers { curpri, ..START };
    let slot = TableRow {
        nice,
        cpu,
        pri: 5,
        ..READY
    };
    leaves(
        before,
        &[(1, slot)],
        Setpri(1),
        Numbers { runrun, ..before },
        &[(1, TableRow { pri, ..slot })],
    )
}

#[test]
fn priorities_are_by_nice_and_cpu(rt: HostRuntime) {
    for (n, row) in PRIORITIES.iter().enumerate() {
        tell::plain_row(&rt, n, priority_holds(*row));
    }
}

/// A process out of core, and others that can't run.
const AWAY: TableRow = TableRow {
    place: OUT,
    pri: 1,
    ..READY
};

const NOWHERE: TableRow = TableRow {
    place: None,
    pri: 1,
    ..READY
};

const ASLEEP: TableRow = TableRow {
    stat: Sleeping,
    pri: -50,
    ..READY
};

const WAITS: TableRow = TableRow {
    stat: Waiting,
    pri: 1,
    ..READY
};

const ENDED: TableRow = TableRow {
    stat: Zombie,
    pri: 1,
    ..READY
};

const LATE: TableRow = TableRow { pri: 101, ..READY };

const SOON: TableRow = TableRow { pri: 99, ..READY };

/// The slot that was chosen last, the slots, and the one that is chosen, with its priority.
static CHOICES: [(Slot, Slots, Option<(Slot, i8)>); 19] = [
    // From the slot after the last one, round to the last one itself.
    (1, &[(1, READY), (2, READY), (3, READY)], Some((2, 100))),
    (2, &[(1, READY), (2, READY), (3, READY)], Some((3, 100))),
    (3, &[(1, READY), (2, READY), (3, READY)], Some((1, 100))),
    (4, &[(1, READY), (2, READY), (3, READY)], Some((1, 100))),
    (0, &[(0, READY), (49, READY)], Some((49, 100))),
    (48, &[(0, READY), (49, READY)], Some((49, 100))),
    (49, &[(0, READY), (49, READY)], Some((0, 100))),
    (7, &[(7, READY)], Some((7, 100))),
    (7, &[(6, READY), (7, READY)], Some((6, 100))),
    // The least priority goes first, and the first of equal ones.
    (1, &[(2, LATE), (3, READY), (4, READY)], Some((3, 100))),
    (1, &[(1, SOON), (2, LATE), (3, READY)], Some((1, 99))),
    (
        3,
        &[(1, READY), (2, SOON), (4, READY), (5, SOON)],
        Some((5, 99)),
    ),
    (1, &[(0, WOKEN), (1, SOON), (2, SOON)], Some((0, -100))),
    (1, &[(1, LATE), (2, LATE)], Some((2, 101))),
    // Who is out of core, sleeps or has exited is passed over.
    (1, &[(2, AWAY), (3, NOWHERE), (4, LATE)], Some((4, 101))),
    (
        1,
        &[(2, ASLEEP), (3, WAITS), (4, ENDED), (5, LATE)],
        Some((5, 101)),
    ),
    (
        9,
        &[
            (
                0,
                TableRow {
                    place: None,
                    ..READY
                },
            ),
            (9, AWAY),
        ],
        Some((0, 100)),
    ),
    // There is nobody.
    (
        1,
        &[
            (0, FOR_WORK),
            (1, AWAY),
            (2, ASLEEP),
            (3, WAITS),
            (4, ENDED),
        ],
        None,
    ),
    (9, &[], None),
];

fn choice_holds(row: (Slot, Slots, Option<(Slot, i8)>)) -> bool {
    let (last, slots, choice) = row;
    let before = Numbers {
        last,
        curpri: 5,
        runrun: true,
        ..START
    };
    let then = match choice {
        Some((s, pri)) => Numbers {
            running: Some(s),
            last: s,
            curpri: pri,
            runrun: false,
            ..before
        },
        None => Numbers {
            running: None,
            runrun: false,
            ..before
        },
    };
    let chosen = match choice {
        Some((s, _)) => Some(s),
        None => None,
    };
    leaves(before, slots, Pick(chosen), then, slots)
}

#[test]
fn the_first_of_the_least_is_chosen(rt: HostRuntime) {
    for (n, row) in CHOICES.iter().enumerate() {
        tell::plain_row(&rt, n, choice_holds(*row));
    }
}
