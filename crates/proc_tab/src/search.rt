//! Searches of the slots: who has a pid, who is a child, and what is free.
ghost use Rattle.std.specs.Prelude.{◌≡◌, ◌<◌, IfSome, is_none};
ghost use Rattle.proc_tab.specs.Processes.{passes, lowest};
ghost use Rattle.proc_tab.specs.Pids.{IsFresh, has_pid, is_pid, pid_after, next_free_pid, fresh_pid};
ghost use Rattle.proc_tab.specs.Children.{is_child_of, is_dead_child_of};

use crate::member::Member;
use v6_base::{Pid, Slot};

/// The greatest pid, after which 1 comes.
const GREATEST_PID: u32 = 32_767;

/// Whether somebody in a slot has a pid.
fn has_pid(slot: Option<Member>, pid: Pid) -> bool
    ensures { result ≡ passes (has_pid pid) slot }
{
    match slot {
        Some(member) => member.row.pid == pid,
        None => false,
    }
}

/// Whether somebody in a slot is a child of the process with a pid.
fn is_child_of(slot: Option<Member>, pid: Pid) -> bool
    ensures { result ≡ passes (is_child_of pid) slot }
{
    match slot {
        Some(member) => member.row.ppid == pid,
        None => false,
    }
}

/// Whether somebody in a slot is such a child, and has ended.
fn is_dead_child_of(slot: Option<Member>, pid: Pid) -> bool
    ensures { result ≡ passes (is_dead_child_of pid) slot }
{
    match slot {
        Some(member) => member.row.ppid == pid && member.is_dead,
        None => false,
    }
}

/// The lowest slot above 0 that is free.
#[tactic(auto, unfolding(crate::specs::Processes::lowest))]
pub(crate) fn lowest_free(slots: &[Option<Member>; 50]) -> Option<Slot>
    ensures slot { result ≡ lowest is_none slots.now }
    ensures low { IfSome result (λ s. s < 50) }
{
    (1..50).find(|s| slots[*s as usize].is_none())
}

/// The lowest slot above 0 whose process has a pid.
#[tactic(auto, unfolding(crate::specs::Processes::lowest))]
pub(crate) fn lowest_with_pid(slots: &[Option<Member>; 50], pid: Pid) -> Option<Slot>
    ensures { result ≡ lowest (passes (has_pid pid)) slots.now }
{
    (1..50).find(|s| has_pid(slots[*s as usize], pid))
}

/// The lowest child.
#[tactic(auto, unfolding(crate::specs::Processes::lowest))]
pub(crate) fn lowest_child(slots: &[Option<Member>; 50], pid: Pid) -> Option<Slot>
    ensures { result ≡ lowest (passes (is_child_of pid)) slots.now }
{
    (1..50).find(|s| is_child_of(slots[*s as usize], pid))
}

/// The lowest child that has ended.
#[tactic(auto, unfolding(crate::specs::Processes::lowest))]
pub(crate) fn lowest_dead_child(slots: &[Option<Member>; 50], pid: Pid) -> Option<Slot>
    ensures { result ≡ lowest (passes (is_dead_child_of pid)) slots.now }
{
    (1..50).find(|s| is_dead_child_of(slots[*s as usize], pid))
}

/// Whether somebody has a pid, dead or alive.
fn is_pid(slots: &[Option<Member>; 50], pid: Pid) -> bool
    ensures { result ≡ is_pid slots.now pid }
{
    slots.iter().any(|slot| has_pid(*slot, pid))
}

/// The pid that comes after the last one, when `k` others are passed over.
fn pid_after(last: Pid, k: Pid) -> Pid
    ensures { result ≡ pid_after last k }
{
    ((u32::from(last) + u32::from(k)) % GREATEST_PID + 1) as Pid
}

/// The first of fifty-one pids after the last one that nobody has.
#[tactic(auto, unfolding(crate::specs::Pids::next_free_pid))]
fn next_free_pid(slots: &[Option<Member>; 50], last: Pid) -> Option<Pid>
    ensures { result ≡ next_free_pid slots.now last }
{
    (0..51)
        .map(|k| pid_after(last, k))
        .find(|pid| !is_pid(slots, *pid))
}

/// The first pid after the last one that nobody has. Fifty slots can't have fifty-one pids.
pub(crate) fn fresh_pid(slots: &[Option<Member>; 50], last: Pid) -> Pid
    ensures pid { result ≡ fresh_pid slots.now last }
    ensures words { IsFresh slots.now last result }
{
    next_free_pid(slots, last).unwrap()
}
