//! The table of processes.
ghost use Rattle.std.specs.Prelude.{◌≡◌, ◌<◌, IfSome, is_none, is_some, map};
ghost use Rattle.proc_tab.specs.Processes.{AreProcesses, IsUsed, Finds, first_processes, member_at, row_at, passes, lowest, with_change, with_row, dead, without};
ghost use Rattle.proc_tab.specs.Pids.{IsFresh, has_pid, child_of, forked};
ghost use Rattle.proc_tab.specs.Children.{Tells, told_by, child, adopted, orphans_adopted};

use crate::child::Child;
use crate::member::Member;
use crate::row::Row;
use crate::search::{fresh_pid, lowest_child, lowest_dead_child, lowest_free, lowest_with_pid};
use std::marker::Model;
use v6_base::{Pid, Slot};

/// Who the processes are, and who their parents: fifty slots, each in use or free. Slot 0 is the kernel's own: it is
/// never given, and nobody is in it. Lions' Commentary, `proc.h`.
#[derive(Clone, Copy)]
pub struct Rows {
    slots: [Option<Member>; 50],
    /// The pid that was given last.
    last_pid: Pid,
}

impl Model for Rows {
    ghost use Rattle.proc_tab.specs.Processes.{Processes, AreProcesses};

    ghost Value = { Processes };

    ghost view = { λ r. record { slots = r.slots; last_pid = r.last_pid } };

    ghost invariant = { λ r. AreProcesses (record { slots = r.slots; last_pid = r.last_pid }) };

    ghost inverse = { λ v. record { slots = v.slots; last_pid = v.last_pid } };
}

/// The row of process 1, whose parent is process 0.
const FIRST: Row = Row {
    pid: 1,
    ppid: 0,
    uid: 0,
    sig: 0,
    tty: 0,
};

/// What a process begins as: what its parent is, with a pid of its own and no signal that waits for it.
fn child_of(parent: Row, pid: Pid) -> Member
    ensures { result ≡ child_of parent pid }
{
    let row = Row {
        pid,
        ppid: parent.pid,
        sig: 0,
        ..parent
    };
    Member {
        row,
        is_dead: false,
    }
}

/// What is told of the children of a process by the lowest of them, and by the lowest that has ended.
fn told_by(child: Option<Slot>, dead: Option<Slot>) -> Child
    ensures { result ≡ told_by child dead }
{
    match (child, dead) {
        (None, _) => Child::NoChild,
        (Some(_), None) => Child::Living,
        (Some(_), Some(s)) => Child::Dead(s),
    }
}

/// Who is in a slot, after the children of one process became process 1's.
fn adopted(slot: Option<Member>, from: Pid) -> Option<Member>
    ensures { result ≡ adopted from slot }
{
    let mut member = slot?;
    if member.row.ppid == from {
        member.row.ppid = FIRST.pid;
    }
    Some(member)
}

/// Makes the children of one process those of process 1.
fn adopt_all(slots: &mut [Option<Member>; 50], from: Pid)
    ensures { slots.new ≡ map (adopted from) slots.old }
{
    for slot in slots.iter_mut() {
        *slot = adopted(*slot, from);
    }
}

impl Rows {
    /// The table with process 1 alone, in slot 1. Lions' Commentary, `main` in `main.c`.
    pub fn new() -> Rows
        ensures { result ≡ first_processes }
    {
        let mut slots = [None; 50];
        slots[1] = Some(Member {
            row: FIRST,
            is_dead: false,
        });
        Rows {
            slots,
            last_pid: FIRST.pid,
        }
    }

    /// Makes a child of the process in a slot that is in use: in the lowest free slot, with the first pid after the one
    /// given last that nobody has, dead or alive, where 1 comes after 32767. `None` exactly where no slot from 1 to 49
    /// is free; then nothing has changed. fork(II); Lions' Commentary, `newproc` in `slp.c`.
    pub fn new_slot(&mut self, parent: Slot) -> Option<Slot>
        requires { IsUsed self.old parent }
        ensures slot { result ≡ lowest is_none self.old.slots }
        ensures free { Finds is_none self.old.slots result }
        ensures pid { IfSome result (λ s. IsFresh self.old.slots self.old.last_pid (row_at self.new s).pid) }
        ensures table { self.new ≡ forked self.old parent result }
    {
        let s = lowest_free(&self.slots)?;
        let pid = fresh_pid(&self.slots, self.last_pid);
        let parent = self.slots[parent as usize].unwrap();
        self.slots[s as usize] = Some(child_of(parent.row, pid));
        self.last_pid = pid;
        Some(s)
    }

    /// Whether a slot is in use, by a process that lives or by one that has ended. Slot 0 isn't, nor are those from 50
    /// on.
    pub fn in_use(&self, s: Slot) -> bool
        ensures used { result ≡ is_some (member_at self.now.slots s) }
        ensures table { AreProcesses self.now }
    {
        s < 50 && self.slots[s as usize].is_some()
    }

    /// The lowest slot above 0 whose process has a pid, dead or alive.
    pub fn slot_of(&self, pid: Pid) -> Option<Slot>
        ensures slot { result ≡ lowest (passes (has_pid pid)) self.now.slots }
        ensures words { Finds (passes (has_pid pid)) self.now.slots result }
    {
        lowest_with_pid(&self.slots, pid)
    }

    /// The row of a slot in use.
    pub fn row(&self, s: Slot) -> &Row
        requires { IsUsed self.now s }
        ensures { result.now ≡ row_at self.now s }
    {
        &self.slots[s as usize].as_ref().unwrap().row
    }

    /// Gives a slot in use another row, with the pid and the parent that stand there.
    pub fn set_row(&mut self, s: Slot, row: Row)
        requires used { IsUsed self.old s }
        requires pid { row.pid ≡ (row_at self.old s).pid }
        requires ppid { row.ppid ≡ (row_at self.old s).ppid }
        ensures { self.new ≡ with_change self.old s (with_row row) }
    {
        let mut member = self.slots[s as usize].unwrap();
        member.row = row;
        self.slots[s as usize] = Some(member);
    }

    /// Says that the process in a slot that is in use has ended: from now on it is what its parent waits for. exit(II).
    pub fn end_row(&mut self, s: Slot)
        requires { IsUsed self.old s }
        ensures { self.new ≡ with_change self.old s dead }
    {
        let mut member = self.slots[s as usize].unwrap();
        member.is_dead = true;
        self.slots[s as usize] = Some(member);
    }

    /// What the process with a pid has to wait for: wait(II). Lions' Commentary, `wait` in `sys1.c`.
    pub fn child(&self, pid: Pid) -> Child
        ensures child { result ≡ child self.now.slots pid }
        ensures words { Tells self.now.slots pid result }
    {
        told_by(
            lowest_child(&self.slots, pid),
            lowest_dead_child(&self.slots, pid),
        )
    }

    /// Makes a slot free.
    pub fn clear_row(&mut self, s: Slot)
        requires { s < 50 }
        ensures { self.new ≡ without self.old s }
    {
        self.slots[s as usize] = None;
    }

    /// Makes the children of the process with a pid those of process 1, dead ones too. exit(II).
    pub fn adopt(&mut self, from: Pid)
        ensures { self.new ≡ orphans_adopted self.old from }
    {
        adopt_all(&mut self.slots, from);
    }
}
