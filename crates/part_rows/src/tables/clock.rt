//! Ticks and seconds: `clock` of Lions' Commentary.
use super::Step::Tick;
use super::{EMPTY, FOR_CORE, FOR_WORK, Numbers, READY, Row, START, WOKEN, judge, leaves};
use crate::tell;
use pick_rules::Stat::{Ready, Sleeping, Waiting, Zombie};
use pick_rules::{Mode, Second, TableRow};
use v6_base::Slot;

/// The last tick of a second comes, and the same after it.
const LAST_TICK: Numbers = Numbers { ticks: 59, ..START };

const NEXT_SECOND: Numbers = Numbers { now: 1001, ..START };

const QUIET: Second = Second::Yes { tout: false };

const WAKING: Second = Second::Yes { tout: true };

/// Slot 1 as it runs, and a second later; in user mode it then has its priority anew.
const RUNS: TableRow = TableRow {
    cpu: 39,
    time: 3,
    pri: 50,
    ..READY
};

const AGED: TableRow = TableRow {
    cpu: 30,
    time: 4,
    ..RUNS
};

const AGED_IN_USER_MODE: TableRow = TableRow { pri: 101, ..AGED };

/// The swapper a second later.
const LATER_FOR_WORK: TableRow = TableRow {
    time: 1,
    ..FOR_WORK
};

const LATER_WOKEN: TableRow = TableRow { time: 1, ..WOKEN };

const ASKED_NEXT: Numbers = Numbers {
    runrun: true,
    ..NEXT_SECOND
};

const LAST_WITH_RUNIN: Numbers = Numbers {
    runin: true,
    ..LAST_TICK
};

const LAST_WITH_RUNOUT: Numbers = Numbers {
    runout: true,
    ..LAST_TICK
};

const NEXT_WITH_RUNOUT: Numbers = Numbers {
    runout: true,
    ..NEXT_SECOND
};

/// Who runs, where a tick comes, the ticks of the second and the use of slots 0, 1 and 49; then who was charged, with
/// what use, and the ticks. The second isn't over, so neither the swapper nor those who sleep for the time are woken.
type Charged = (Option<Slot>, Mode, u8, u8, Slot, u8, u8);

static CHARGES: [Charged; 8] = [
    (Some(1), Mode::User, 0, 39, 1, 40, 1),
    (Some(1), Mode::Kernel, 0, 254, 1, 255, 1),
    (Some(1), Mode::Kernel, 30, 255, 1, 255, 31),
    (Some(49), Mode::User, 57, 255, 49, 255, 58),
    (Some(1), Mode::User, 58, 200, 1, 201, 59),
    (Some(0), Mode::Kernel, 58, 0, 0, 1, 59),
    (None, Mode::Idle, 5, 7, 0, 8, 6),
    (None, Mode::Idle, 58, 255, 0, 255, 59),
];

/// The slot after a tick, which is charged to it or not.
fn charged(slot: TableRow, is_charged: bool, more: u8) -> TableRow {
    let cpu = if is_charged { more } else { slot.cpu };
    TableRow { cpu, ..slot }
}

fn charge_holds(row: Charged) -> bool {
    let (running, mode, ticks, cpu, who, more, then) = row;
    let before = Numbers {
        running,
        ticks,
        runin: true,
        now: 1003,
        tout: 1004,
        ..START
    };
    let swapper = TableRow { cpu, ..FOR_CORE };
    let slot = TableRow { cpu, ..RUNS };
    leaves(
        before,
        &[(0, swapper), (1, slot), (49, slot)],
        Tick(mode, Second::No),
        Numbers {
            ticks: then,
            ..before
        },
        &[
            (0, charged(swapper, who == 0, more)),
            (1, charged(slot, who == 1, more)),
            (49, charged(slot, who == 49, more)),
        ],
    )
}

#[test]
fn ticks_are_charged(rt: HostRuntime) {
    for (n, row) in CHARGES.iter().enumerate() {
        tell::plain_row(&rt, n, charge_holds(*row));
    }
}

/// A second passes for slots 2 and 49, which don't run: their priority, use and time, and the priority of the one that
/// was chosen last; then their priority, use and time, and whether a new choice is asked for.
type Aged = (i8, u8, u8, i8, i8, u8, u8, bool);

static AGES: [Aged; 12] = [
    (50, 50, 3, 100, 50, 40, 4, false),
    (50, 0, 0, 100, 50, 0, 1, false),
    (50, 9, 125, 100, 50, 0, 126, false),
    (50, 10, 126, 100, 50, 0, 127, false),
    (50, 11, 127, 100, 50, 1, 127, false),
    (-100, 255, 3, 100, -100, 245, 4, false),
    // Above 100 the priority changes too, by the use that is left.
    (100, 170, 0, 0, 100, 160, 1, false),
    (101, 41, 0, 101, 101, 31, 1, false),
    (101, 42, 0, 101, 102, 32, 1, true),
    (101, 42, 0, 102, 102, 32, 1, false),
    (115, 9, 0, 100, 100, 0, 1, false),
    (127, 255, 0, 100, 115, 245, 1, true),
];

/// Whether a second is as the row says for slots that are ready, sleep, wait or have exited.
fn age_holds(row: Aged) -> bool {
    let (pri, cpu, time, curpri, new_pri, new_cpu, new_time, runrun) = row;
    let before = Numbers {
        curpri,
        ..LAST_TICK
    };
    for stat in [Ready, Sleeping, Waiting, Zombie] {
        let slot = TableRow {
            stat,
            pri,
            cpu,
            time,
            ..READY
        };
        let aged = TableRow {
            pri: new_pri,
            cpu: new_cpu,
            time: new_time,
            ..slot
        };
        let then = Numbers {
            curpri,
            runrun,
            ..NEXT_SECOND
        };
        let step = Tick(Mode::Kernel, QUIET);
        if !leaves(
            before,
            &[(1, RUNS), (2, slot), (49, slot)],
            step,
            then,
            &[(1, AGED), (2, aged), (49, aged)],
        ) {
            return false;
        }
    }
    true
}

#[test]
fn slots_age(rt: HostRuntime) {
    for (n, row) in AGES.iter().enumerate() {
        tell::plain_row(&rt, n, age_holds(*row));
    }
}

static TICKS: [Row; 6] = [
    Row {
        numbers: LAST_TICK,
        slots: &[(1, RUNS)],
        step: Tick(Mode::Kernel, QUIET),
        then: NEXT_SECOND,
        becomes: &[(1, AGED)],
    },
    Row {
        numbers: LAST_TICK,
        slots: &[(1, RUNS)],
        step: Tick(Mode::User, QUIET),
        then: ASKED_NEXT,
        becomes: &[(1, AGED_IN_USER_MODE)],
    },
    // Nobody runs: the tick is slot 0's, and goes with the ten.
    Row {
        numbers: Numbers {
            running: None,
            ..LAST_TICK
        },
        slots: &[(0, FOR_WORK), (1, AGED)],
        step: Tick(Mode::Idle, QUIET),
        then: Numbers {
            running: None,
            ..NEXT_SECOND
        },
        becomes: &[
            (0, LATER_FOR_WORK),
            (
                1,
                TableRow {
                    cpu: 20,
                    time: 5,
                    ..AGED
                },
            ),
        ],
    },
    // The swapper is woken where it waits for core, and not where it waits for work.
    Row {
        numbers: LAST_WITH_RUNIN,
        slots: &[(0, FOR_CORE), (1, RUNS)],
        step: Tick(Mode::Kernel, QUIET),
        then: ASKED_NEXT,
        becomes: &[(0, LATER_WOKEN), (1, AGED)],
    },
    Row {
        numbers: LAST_WITH_RUNOUT,
        slots: &[(0, FOR_WORK), (1, RUNS)],
        step: Tick(Mode::Kernel, QUIET),
        then: NEXT_WITH_RUNOUT,
        becomes: &[(0, LATER_FOR_WORK), (1, AGED)],
    },
    // A slot without a process doesn't age.
    Row {
        numbers: LAST_TICK,
        slots: &[
            (1, RUNS),
            (
                2,
                TableRow {
                    cpu: 50,
                    time: 3,
                    pri: 110,
                    ..EMPTY
                },
            ),
        ],
        step: Tick(Mode::Kernel, QUIET),
        then: NEXT_SECOND,
        becomes: &[
            (1, AGED),
            (
                2,
                TableRow {
                    cpu: 50,
                    time: 3,
                    pri: 110,
                    ..EMPTY
                },
            ),
        ],
    },
];

#[test]
fn seconds_end(rt: HostRuntime) {
    judge(&rt, &TICKS);
}

/// The time at which a second begins, the first time at which somebody is to be woken, and whether a new choice is
/// asked for; and then the time, the answer, and whether a new choice is asked for.
static SECONDS: [(u32, u32, bool, u32, Second, bool); 10] = [
    (1000, 1001, false, 1001, WAKING, false),
    (1000, 1000, false, 1001, QUIET, false),
    (1000, 1002, false, 1001, QUIET, false),
    (1000, 1002, true, 1001, QUIET, true),
    (1001, 0, false, 1002, QUIET, false),
    (1002, 0, false, 1003, QUIET, false),
    (1003, 0, false, 1004, QUIET, true),
    (1003, 1004, true, 1004, WAKING, true),
    (
        4_294_967_294,
        4_294_967_295,
        false,
        4_294_967_295,
        WAKING,
        false,
    ),
    (4_294_967_295, 0, false, 0, WAKING, true),
];

fn second_holds(row: (u32, u32, bool, u32, Second, bool)) -> bool {
    let (from, tout, asked, now, second, runrun) = row;
    let before = Numbers {
        now: from,
        tout,
        runrun: asked,
        ..LAST_TICK
    };
    leaves(
        before,
        &[(1, RUNS)],
        Tick(Mode::Kernel, second),
        Numbers {
            ticks: 0,
            now,
            runrun,
            ..before
        },
        &[(1, AGED)],
    )
}

#[test]
fn seconds_count_and_tell_of_sleepers(rt: HostRuntime) {
    for (n, row) in SECONDS.iter().enumerate() {
        tell::plain_row(&rt, n, second_holds(*row));
    }
}
