//! Sleeping and waking: `sleep`, `wakeup` and `setrun` of Lions' Commentary.
use super::Step::{Setrun, Sleep, Wakeup};
use super::{FOR_CORE, FOR_WORK, IN, Numbers, OUT, READY, Row, START, WOKEN, judge, leaves};
use crate::tell;
use pick_rules::Stat::{Ready, Sleeping, Waiting};
use pick_rules::{Stat, TableRow};
use v6_base::{Chan, Place};

/// Slot 5 waits, and becomes ready: its priority and place, the priority of the one that was chosen last, `runout`,
/// and the swapper; and then whether a new choice is asked for, `runout`, and the swapper.
type Readied = (i8, Option<Place>, i8, bool, TableRow, bool, bool, TableRow);

static READIED: [Readied; 9] = [
    (50, IN, 51, false, FOR_WORK, true, false, FOR_WORK),
    (50, IN, 50, false, FOR_WORK, false, false, FOR_WORK),
    (51, IN, 50, false, FOR_WORK, false, false, FOR_WORK),
    (50, IN, 50, true, FOR_WORK, false, true, FOR_WORK),
    (50, OUT, 50, true, FOR_WORK, true, false, WOKEN),
    (50, OUT, 50, false, FOR_WORK, false, false, FOR_WORK),
    (50, OUT, 50, true, FOR_CORE, false, false, FOR_CORE),
    (50, OUT, -100, true, FOR_WORK, false, false, WOKEN),
    (50, None, 50, true, FOR_WORK, true, false, WOKEN),
];

fn readied_holds(row: Readied) -> bool {
    let (pri, place, curpri, runout, swapper, runrun, still, then) = row;
    let before = Numbers {
        curpri,
        runout,
        ..START
    };
    let slot = TableRow {
        stat: Waiting,
        pri,
        place,
        channel: Some(Chan::Keys),
        calling: true,
        ..READY
    };
    leaves(
        before,
        &[(0, swapper), (5, slot)],
        Setrun(5),
        Numbers {
            runrun,
            runout: still,
            ..before
        },
        &[
            (0, then),
            (
                5,
                TableRow {
                    stat: Ready,
                    channel: None,
                    ..slot
                },
            ),
        ],
    )
}

#[test]
fn slots_become_ready(rt: HostRuntime) {
    for (n, row) in READIED.iter().enumerate() {
        tell::plain_row(&rt, n, readied_holds(*row));
    }
}

/// Slot 1 sleeps until a key is typed: at which priority, with `runin`, and the swapper; and then its state, `runin`,
/// the swapper, and whether a new choice is asked for.
type Slept = (i8, bool, TableRow, Stat, bool, TableRow, bool);

static SLEPT: [Slept; 8] = [
    (-1, true, FOR_CORE, Sleeping, true, FOR_CORE, false),
    (0, true, FOR_CORE, Waiting, false, WOKEN, true),
    (10, true, FOR_CORE, Waiting, false, WOKEN, true),
    (-1, false, FOR_CORE, Sleeping, false, FOR_CORE, false),
    (0, false, FOR_CORE, Waiting, false, FOR_CORE, false),
    (10, false, FOR_CORE, Waiting, false, FOR_CORE, false),
    (10, true, FOR_WORK, Waiting, false, FOR_WORK, false),
    (-100, true, FOR_CORE, Sleeping, true, FOR_CORE, false),
];

fn slept_holds(row: Slept) -> bool {
    let (pri, runin, swapper, stat, still, then, runrun) = row;
    let before = Numbers { runin, ..START };
    let slot = TableRow {
        stat,
        pri,
        channel: Some(Chan::Keys),
        calling: true,
        ..READY
    };
    leaves(
        before,
        &[(0, swapper), (1, READY)],
        Sleep(1, pri, Chan::Keys),
        Numbers {
            runin: still,
            runrun,
            running: None,
            ..before
        },
        &[(0, then), (1, slot)],
    )
}

#[test]
fn slots_fall_asleep(rt: HostRuntime) {
    for (n, row) in SLEPT.iter().enumerate() {
        tell::plain_row(&rt, n, slept_holds(*row));
    }
}

/// What slot 2 sleeps for, what is woken, and whether the slot then is.
static CHANNELS: [(Chan, Chan, bool); 22] = [
    (Chan::RunIn, Chan::RunIn, true),
    (Chan::RunIn, Chan::RunOut, false),
    (Chan::RunOut, Chan::RunIn, false),
    (Chan::RunOut, Chan::RunOut, true),
    (Chan::Tout, Chan::Tout, true),
    (Chan::Tout, Chan::Keys, false),
    (Chan::Keys, Chan::Tout, false),
    (Chan::Keys, Chan::Keys, true),
    (Chan::Wait(3), Chan::Wait(3), true),
    (Chan::Wait(3), Chan::Wait(4), false),
    (Chan::Wait(4), Chan::Wait(3), false),
    (Chan::Wait(5), Chan::Read(5), false),
    (Chan::Read(5), Chan::Read(5), true),
    (Chan::Read(5), Chan::Read(6), false),
    (Chan::Read(5), Chan::Write(5), false),
    (Chan::Write(5), Chan::Read(5), false),
    (Chan::Write(5), Chan::Write(5), true),
    (Chan::Write(5), Chan::Write(6), false),
    (Chan::Disk(5), Chan::Disk(5), true),
    (Chan::Disk(5), Chan::Disk(6), false),
    (Chan::Disk(5), Chan::Wait(5), false),
    (Chan::Wait(5), Chan::Disk(5), false),
];

fn channel_holds(row: (Chan, Chan, bool)) -> bool {
    let (own, chan, wakes) = row;
    let slot = TableRow {
        channel: Some(own),
        ..FOR_TIME
    };
    if wakes {
        leaves(START, &[(2, slot)], Wakeup(chan), ASKED, &[(2, TIME_CAME)])
    } else {
        leaves(START, &[(2, slot)], Wakeup(chan), START, &[(2, slot)])
    }
}

#[test]
fn channels_are_told_apart(rt: HostRuntime) {
    for (n, row) in CHANNELS.iter().enumerate() {
        tell::plain_row(&rt, n, channel_holds(*row));
    }
}

/// A process that sleeps for a time, and the same one woken.
const FOR_TIME: TableRow = TableRow {
    stat: Waiting,
    pri: 90,
    channel: Some(Chan::Tout),
    calling: true,
    ..READY
};

const TIME_CAME: TableRow = TableRow {
    stat: Ready,
    channel: None,
    ..FOR_TIME
};

/// The same out of core.
const AWAY_FOR_TIME: TableRow = TableRow {
    place: OUT,
    ..FOR_TIME
};

const AWAY_AND_WOKEN: TableRow = TableRow {
    place: OUT,
    ..TIME_CAME
};

/// The numbers at the beginning, but a new choice is asked for, or nobody runs, or the swapper left word.
const ASKED: Numbers = Numbers {
    runrun: true,
    ..START
};

const NOBODY_RUNS: Numbers = Numbers {
    running: None,
    ..START
};

const WORD_LEFT: Numbers = Numbers {
    runout: true,
    ..START
};

const ASKED_WITH_WORD: Numbers = Numbers {
    runout: true,
    ..ASKED
};

const AT_90: Numbers = Numbers {
    curpri: 90,
    ..START
};

/// The swapper runs, and then sleeps.
const SWAPPER_RUNS: Numbers = Numbers {
    last: 0,
    running: Some(0),
    curpri: -100,
    ..START
};

const SLEEPS_FOR_CORE: Numbers = Numbers {
    running: None,
    runin: true,
    ..SWAPPER_RUNS
};

const SLEEPS_FOR_WORK: Numbers = Numbers {
    running: None,
    runout: true,
    ..SWAPPER_RUNS
};

static SLEEPERS: [Row; 9] = [
    // The swapper leaves word of what it waits for, another slot doesn't.
    Row {
        numbers: SWAPPER_RUNS,
        slots: &[(0, WOKEN)],
        step: Sleep(0, -100, Chan::RunIn),
        then: SLEEPS_FOR_CORE,
        becomes: &[(0, FOR_CORE)],
    },
    Row {
        numbers: SWAPPER_RUNS,
        slots: &[(0, WOKEN)],
        step: Sleep(0, -100, Chan::RunOut),
        then: SLEEPS_FOR_WORK,
        becomes: &[(0, FOR_WORK)],
    },
    Row {
        numbers: START,
        slots: &[(1, WOKEN)],
        step: Sleep(1, -100, Chan::RunOut),
        then: NOBODY_RUNS,
        becomes: &[(1, FOR_WORK)],
    },
    // The swapper always is in core.
    Row {
        numbers: WORD_LEFT,
        slots: &[(0, FOR_WORK)],
        step: Setrun(0),
        then: ASKED_WITH_WORD,
        becomes: &[(0, WOKEN)],
    },
    // Two slots are woken, and others stay: one that sleeps for core, one that is ready.
    Row {
        numbers: START,
        slots: &[(2, FOR_TIME), (3, FOR_CORE), (4, FOR_TIME), (5, READY)],
        step: Wakeup(Chan::Tout),
        then: ASKED,
        becomes: &[(2, TIME_CAME), (3, FOR_CORE), (4, TIME_CAME), (5, READY)],
    },
    Row {
        numbers: AT_90,
        slots: &[(0, FOR_TIME), (49, FOR_TIME)],
        step: Wakeup(Chan::Tout),
        then: AT_90,
        becomes: &[(0, TIME_CAME), (49, TIME_CAME)],
    },
    // One of the two is out of core: the swapper, whose slot the round has passed, is woken too.
    Row {
        numbers: WORD_LEFT,
        slots: &[(0, FOR_WORK), (2, FOR_TIME), (3, AWAY_FOR_TIME)],
        step: Wakeup(Chan::Tout),
        then: ASKED,
        becomes: &[(0, WOKEN), (2, TIME_CAME), (3, AWAY_AND_WOKEN)],
    },
    Row {
        numbers: WORD_LEFT,
        slots: &[(0, FOR_WORK), (2, FOR_TIME)],
        step: Wakeup(Chan::Tout),
        then: ASKED_WITH_WORD,
        becomes: &[(0, FOR_WORK), (2, TIME_CAME)],
    },
    // A slot that is ready already stays so.
    Row {
        numbers: START,
        slots: &[(2, READY)],
        step: Setrun(2),
        then: START,
        becomes: &[(2, READY)],
    },
];

#[test]
fn sleepers_are_woken(rt: HostRuntime) {
    judge(&rt, &SLEEPERS);
}
