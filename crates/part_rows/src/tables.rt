//! Who runs next, by hand from `slp.c` and `clock.c` of Lions' Commentary: priorities, sleeping and waking, ticks and
//! the choice. A row tells all of a table before and after one step: slots that it doesn't name have no process.
ghost use Rattle.std.specs.Prelude.{IfSome};
ghost use Rattle.pick_rules.specs.Table.{IsTable};

mod choice;
mod clock;
mod sleepers;

use crate::tell;
use pick_rules::{Mode, Second, Stat, Table, TableRow};
use std::process::Abort;
use v6_base::{Chan, Place, Slot};

/// One step of a table, with its answer where it has one.
#[derive(Clone, Copy)]
enum Step {
    Setpri(Slot),
    Setrun(Slot),
    Sleep(Slot, i8, Chan),
    Wakeup(Chan),
    Tick(Mode, Second),
    Pick(Option<Slot>),
}

use Stat::{Ready, Sleeping};
use Step::{Pick, Setpri, Setrun, Sleep, Tick, Wakeup};

/// What a table has besides its slots.
#[derive(Clone, Copy)]
struct Numbers {
    curpri: i8,
    runrun: bool,
    runin: bool,
    runout: bool,
    last: Slot,
    running: Option<Slot>,
    ticks: u8,
    now: u32,
    tout: u32,
}

/// Slots that are used.
type Slots = &'static [(Slot, TableRow)];

/// A table, a step, and what the table is then.
#[derive(Clone, Copy)]
struct Row {
    numbers: Numbers,
    slots: Slots,
    step: Step,
    then: Numbers,
    becomes: Slots,
}

const EMPTY: TableRow = TableRow {
    stat: Stat::Empty,
    pri: 0,
    cpu: 0,
    time: 0,
    nice: 0,
    size: 0,
    text: None,
    place: None,
    channel: None,
    calling: false,
};

const IN: Option<Place> = Some(Place::Core(1));

const OUT: Option<Place> = Some(Place::Swap(4000));

/// A process that can run.
const READY: TableRow = TableRow {
    stat: Ready,
    pri: 100,
    size: 17,
    place: IN,
    ..EMPTY
};

/// The swapper, which sleeps for core or for somebody out of core.
const FOR_CORE: TableRow = TableRow {
    stat: Sleeping,
    pri: -100,
    channel: Some(Chan::RunIn),
    calling: true,
    ..EMPTY
};

const FOR_WORK: TableRow = TableRow {
    channel: Some(Chan::RunOut),
    ..FOR_CORE
};

/// The swapper after it was woken.
const WOKEN: TableRow = TableRow {
    stat: Ready,
    channel: None,
    ..FOR_CORE
};

/// Slot 1 runs, in the middle of a second that isn't a fourth one.
const START: Numbers = Numbers {
    curpri: 100,
    runrun: false,
    runin: false,
    runout: false,
    last: 1,
    running: Some(1),
    ticks: 0,
    now: 1000,
    tout: 0,
};

fn put_rows(rows: &mut [TableRow; 50], slots: &[(Slot, TableRow)]) {
    for (s, row) in slots {
        if let Some(own) = rows.get_mut(*s as usize) {
            *own = *row;
        }
    }
}

/// The table with these numbers and slots, where the numbers are a table's.
fn table_of(numbers: Numbers, slots: &[(Slot, TableRow)]) -> Option<Table>
    ensures { IfSome result IsTable }
{
    if numbers.last >= 50 || numbers.ticks >= 60 || numbers.running.unwrap_or(0) >= 50 {
        return None;
    }
    let mut rows = [EMPTY; 50];
    put_rows(&mut rows, slots);
    Some(Table {
        rows,
        curpri: numbers.curpri,
        runrun: numbers.runrun,
        runin: numbers.runin,
        runout: numbers.runout,
        last: numbers.last,
        running: numbers.running,
        ticks: numbers.ticks,
        now: numbers.now,
        tout: numbers.tout,
    })
}

/// Does a step, and says whether its answer is the one that is wanted.
fn answers(table: &mut Table, step: Step) -> bool
    requires { IsTable table.old }
{
    match step {
        Setpri(s) if s < 50 => table.setpri(s),
        Setrun(s) if s < 50 => table.setrun(s),
        Sleep(s, pri, chan) if s < 50 => table.sleep(s, pri, chan),
        Wakeup(chan) => table.wakeup(chan),
        Tick(mode, second) => return table.tick_ageing(mode) == second,
        Pick(slot) => return table.pick() == slot,
        _ => return false,
    }
    true
}

/// Whether two tables have the same slots.
fn are_same(left: &[TableRow; 50], right: &[TableRow; 50]) -> bool {
    for s in 0..50 {
        if left[s] != right[s] {
            return false;
        }
    }
    true
}

/// Whether a table has these numbers.
fn has(table: Table, numbers: Numbers) -> bool {
    table.curpri == numbers.curpri
        && table.runrun == numbers.runrun
        && table.runin == numbers.runin
        && table.runout == numbers.runout
        && table.last == numbers.last
        && table.running == numbers.running
        && table.ticks == numbers.ticks
        && table.now == numbers.now
        && table.tout == numbers.tout
}

/// Whether a step of a table gives its answer and leaves this table.
fn leaves(
    numbers: Numbers,
    slots: &[(Slot, TableRow)],
    step: Step,
    then: Numbers,
    becomes: &[(Slot, TableRow)],
) -> bool {
    match (table_of(numbers, slots), table_of(then, becomes)) {
        (Some(mut table), Some(want)) => {
            answers(&mut table, step) && has(table, then) && are_same(&table.rows, &want.rows)
        }
        _ => false,
    }
}

/// Tells the first row of a list that doesn't hold.
fn judge(rt: &impl Abort, rows: &[Row]) {
    for (n, row) in rows.iter().enumerate() {
        let holds = leaves(row.numbers, row.slots, row.step, row.then, row.becomes);
        tell::plain_row(rt, n, holds);
    }
}

#[test]
fn a_table_begins_with_two_processes(rt: HostRuntime) {
    let table = Table::new(1200);
    let begun = Numbers {
        curpri: 0,
        last: 0,
        running: Some(0),
        now: 1200,
        ..START
    };
    let mut rows = [EMPTY; 50];
    rows[0] = TableRow {
        stat: Ready,
        ..EMPTY
    };
    rows[1] = TableRow { pri: 0, ..READY };
    tell::plain(&rt, has(table, begun) && are_same(&table.rows, &rows));
}
