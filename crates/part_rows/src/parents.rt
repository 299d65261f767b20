//! Who the processes are and who their parents, by hand from fork(II), wait(II) and exit(II) and from `newproc` of
//! Lions' Commentary. Each scene begins with process 1 alone, in slot 1.
use self::Step::{Adopts, At, Clears, ClearsAll, Ends, Fills, Forks, Has, Is, Passes, Used};

mod scenes;

use self::scenes::{ADOPTIONS, CHILDREN, PIDS, SLOTS};
use crate::tell;
use proc_tab::{Child, Row, Rows};
use std::process::Abort;
use v6_base::{Pid, Slot};

/// Something that happens to the table, or that is looked at.
#[derive(Clone, Copy)]
enum Step {
    /// The process in a slot forks. The child has this slot and this pid, or there is no slot for it.
    Forks(Slot, Option<(Slot, Pid)>),
    /// The process in slot 1 forks 48 times, and its children have the slots 2 to 49, with pids that are the same.
    Fills,
    /// The process in slot 1 forks so often, and each child's slot is free again at once.
    Passes(u16),
    /// The process in a slot ends.
    Ends(Slot),
    /// The slot is free again.
    Clears(Slot),
    /// The slots from the first to the second are free again.
    ClearsAll(Slot, Slot),
    /// The children of the process with this pid become those of process 1.
    Adopts(Pid),
    /// These are the children of the process with this pid.
    Has(Pid, Child),
    /// This is the slot of a pid.
    At(Pid, Option<Slot>),
    /// The process in a slot has this pid, and its parent that one.
    Is(Slot, Pid, Pid),
    /// Whether a slot is in use.
    Used(Slot, bool),
}

/// What happens, step by step.
#[derive(Clone, Copy)]
struct Scene {
    name: &'static str,
    steps: &'static [Step],
}

/// The process in a slot forks, where there is one.
fn fork(rows: &mut Rows, parent: Slot) -> Option<Slot> {
    if rows.in_use(parent) {
        rows.new_slot(parent)
    } else {
        None
    }
}

/// The row of a slot, where it has one.
fn row_of(rows: &Rows, s: Slot) -> Option<Row> {
    if rows.in_use(s) {
        Some(*rows.row(s))
    } else {
        None
    }
}

fn has_row(rows: &Rows, s: Slot, pid: Pid, ppid: Pid) -> bool {
    match row_of(rows, s) {
        Some(row) => row.pid == pid && row.ppid == ppid,
        None => false,
    }
}

fn clear(rows: &mut Rows, s: Slot) -> bool {
    if s >= 50 {
        return false;
    }
    rows.clear_row(s);
    true
}

fn end(rows: &mut Rows, s: Slot) -> bool {
    if !rows.in_use(s) {
        return false;
    }
    rows.end_row(s);
    true
}

/// A fork that gives this, and leaves the child in its slot.
fn forks(rows: &mut Rows, parent: Slot, child: Option<(Slot, Pid)>) -> bool {
    match (fork(rows, parent), child) {
        (Some(s), Some((slot, pid))) => match (row_of(rows, s), row_of(rows, parent)) {
            (Some(own), Some(of_parent)) => {
                s == slot && own.pid == pid && own.ppid == of_parent.pid
            }
            _ => false,
        },
        (None, None) => true,
        _ => false,
    }
}

fn fills(rows: &mut Rows) -> bool {
    for s in 2..50 {
        if !forks(rows, 1, Some((s, Pid::from(s)))) {
            return false;
        }
    }
    true
}

fn clear_all(rows: &mut Rows, low: Slot, high: Slot) -> bool {
    for s in low..=high {
        if !clear(rows, s) {
            return false;
        }
    }
    true
}

fn passes(rows: &mut Rows, times: u16) -> bool {
    for _ in 0..times {
        match fork(rows, 1) {
            Some(s) if s < 50 => rows.clear_row(s),
            _ => return false,
        }
    }
    true
}

/// Whether a step comes to what it must.
fn holds(rows: &mut Rows, step: Step) -> bool {
    match step {
        Forks(parent, child) => forks(rows, parent, child),
        Fills => fills(rows),
        Passes(times) => passes(rows, times),
        Ends(s) => end(rows, s),
        Clears(s) => clear(rows, s),
        ClearsAll(low, high) => clear_all(rows, low, high),
        Adopts(pid) => {
            rows.adopt(pid);
            true
        }
        Has(pid, child) => rows.child(pid) == child,
        At(pid, slot) => rows.slot_of(pid) == slot,
        Is(s, pid, ppid) => has_row(rows, s, pid, ppid),
        Used(s, used) => rows.in_use(s) == used,
    }
}

/// The first step that fails, if any.
fn first_step(steps: &[Step]) -> Option<usize> {
    let mut rows = Rows::new();
    for (n, step) in steps.iter().enumerate() {
        if !holds(&mut rows, *step) {
            return Some(n);
        }
    }
    None
}

/// Tells the first step that fails.
fn judge_steps(rt: &impl Abort, steps: &[Step]) {
    tell::step(rt, first_step(steps));
}

/// Tells the first scene that fails: its name and its step.
fn judge(rt: &impl Abort, scenes: &[Scene]) {
    for scene in scenes {
        tell::step_of(rt, scene.name, first_step(scene.steps));
    }
}

#[test]
fn slots_are_in_use(rt: HostRuntime) {
    judge(&rt, &SLOTS);
}

#[test]
fn pids_count_up(rt: HostRuntime) {
    judge(&rt, &PIDS);
}

#[test]
fn children_are_waited_for(rt: HostRuntime) {
    judge(&rt, &CHILDREN);
}

#[test]
fn orphans_are_adopted(rt: HostRuntime) {
    judge(&rt, &ADOPTIONS);
}

/// 48 children fork, and the 49th doesn't, nor does one of a child; two slots that are free again are taken, the lowest
/// first, and then none is free.
static FULL: [Step; 10] = [
    Fills,
    Forks(1, None),
    Forks(49, None),
    Is(1, 1, 0),
    Is(49, 49, 1),
    Clears(7),
    Clears(30),
    Forks(49, Some((7, 50))),
    Forks(1, Some((30, 51))),
    Forks(1, None),
];

#[test]
fn there_is_room_for_48_children(rt: HostRuntime) {
    judge_steps(&rt, &FULL);
}

/// The first process, with what it is given then; and its child, which has that but for the signal.
const FIRST: Row = Row {
    pid: 1,
    ppid: 0,
    uid: 0,
    sig: 0,
    tty: 0,
};

const OWN: Row = Row {
    uid: 7,
    sig: 2,
    tty: 1,
    ..FIRST
};

const CHILD: Row = Row {
    pid: 2,
    ppid: 1,
    uid: 7,
    sig: 0,
    tty: 1,
};

/// Gives process 1 its row, where that changes neither its pid nor its parent's.
fn give(rows: &mut Rows) -> bool {
    let may = rows.in_use(1) && rows.row(1).pid == OWN.pid && rows.row(1).ppid == OWN.ppid;
    if may {
        rows.set_row(1, OWN);
    }
    may
}

fn child_has_it(rows: &mut Rows) -> bool {
    row_of(rows, 1) == Some(FIRST)
        && give(rows)
        && row_of(rows, 1) == Some(OWN)
        && fork(rows, 1) == Some(2)
        && row_of(rows, 1) == Some(OWN)
        && row_of(rows, 2) == Some(CHILD)
}

#[test]
fn a_child_has_what_its_parent_has(rt: HostRuntime) {
    tell::plain(&rt, child_has_it(&mut Rows::new()));
}
