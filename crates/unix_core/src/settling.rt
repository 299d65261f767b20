//! What the end of a turn does to the table, and how the kernel settles: `trap` and `swtch` in Lions' Commentary,
//! `trap.c` and `slp.c`.
ghost use Rattle.std.specs.Prelude.{◌≡◌, ◌==◌, ◌||◌, ◌&&◌, not, ◌<◌, MatchOption, ⊤};
ghost use Rattle.v6_base.specs.Trace.{Took};
ghost use Rattle.pick_rules.specs.Table.{IsTable, is_in_core};
ghost use Rattle.pick_rules.specs.declared.table.Table.{Table};
ghost use Rattle.pick_rules.specs.Choice.{gives_up};
ghost use Rattle.pick_rules.specs.Board.{Board};
ghost use Rattle.pick_rules.specs.Logged.{logged};
ghost use Rattle.image_keep.specs.Kept.{Kept};
ghost use Rattle.sys_procs.specs.Agree.{board_of};
ghost use Rattle.abstract_unix.specs.Unix.{Unix};
ghost use Rattle.abstract_unix.specs.Turn.{end_effects, settled};
ghost use Rattle.abstract_unix.specs.Outside.{wakes};
ghost use Rattle.unix_core.specs.Passing.{trapped, ended_table, called_table, settled_table};

use abstract_unix::Ending;
use pick_rules::{Table, TableRow};
use v6_base::{Chan, Entry, Place, Slot, Trace};

/// A process comes out of its call.
fn trap(table: &mut Table, s: Slot)
    requires table { IsTable table.old }
    requires slot { s < 50 }
    ensures table { table.new ≡ trapped table.old s }
    ensures good { IsTable table.new }
{
    table.rows[s as usize].calling = false;
    table.setpri(s);
}

/// Ends a turn of a slot.
#[tactic(auto, using(v6_base::proofs::Took::took_nothing))]
#[inline(always)]
pub(crate) fn end_turn<T: Trace>(table: &mut Table, s: Slot, ending: Ending, trace: &mut T)
    requires table { IsTable table.old }
    requires slot { s < 50 }
    ensures board { (k : Kept) → board_of table.new k ≡ (logged {W = Unix} (board_of table.old k) (end_effects s ending)).board }
    ensures table { table.new ≡ ended_table table.old s ending }
    ensures good { IsTable table.new }
    ensures items { (b : Board) → Took (T.taken trace.old) (logged {W = Unix} b (end_effects s ending)).items (T.taken trace.new) }
    ensures frame { T.leads_to trace.old trace.new }
{
    match ending {
        Ending::Next | Ending::Ended | Ending::Panic(_) => {}
        Ending::Trapped => {
            trace.entry(Entry::Trap(s));
            trap(table, s);
        }
        Ending::Slept { pri, chan } => {
            trace.entry(Entry::Sleep { slot: s, pri, chan });
            table.sleep(s, pri, chan);
        }
    }
}

/// Wakes those who sleep for a channel, where that is called for.
#[tactic(auto, using(v6_base::proofs::Took::took_nothing))]
pub(crate) fn wake<T: Trace>(table: &mut Table, called: bool, chan: Chan, trace: &mut T)
    requires { IsTable table.old }
    ensures board { (k : Kept) → board_of table.new k ≡ (logged {W = Unix} (board_of table.old k) (wakes called chan)).board }
    ensures table { table.new ≡ called_table called chan table.old }
    ensures good { IsTable table.new }
    ensures items { (b : Board) → Took (T.taken trace.old) (logged {W = Unix} b (wakes called chan)).items (T.taken trace.new) }
    ensures frame { T.leads_to trace.old trace.new }
{
    if called {
        table.wake(chan, trace);
    }
}

/// Whether a running slot gives up: its image isn't in core, or in user mode a new choice is asked for.
fn must_give_up(s: Slot, row: TableRow, runrun: bool) -> bool
    ensures { result ≡ (not ((s == 0) || is_in_core row.place) || (not (s == 0) && not row.calling && runrun)) }
{
    let loaded = s == 0 || matches!(row.place, Some(Place::Core(_)));
    !loaded || (s != 0 && !row.calling && runrun)
}

/// Whether the running slot gives up; with nobody running there is always a choice.
fn gives_up(running: Option<Slot>, rows: &[TableRow; 50], runrun: bool) -> bool
    requires { MatchOption running ⊤ (λ s. s < 50) }
    ensures { (t : Table) → t.rows ≡ rows.now → t.runrun ≡ runrun → gives_up t running ≡ result }
{
    match running {
        None => true,
        Some(s) => must_give_up(s, rows[s as usize], runrun),
    }
}

/// Settles: who must gives up, and with nobody running there is a choice.
#[inline(always)]
pub(crate) fn settle<T: Trace>(table: &mut Table, trace: &mut T)
    requires { IsTable table.old }
    ensures board { (k : Kept) → board_of table.new k ≡ (settled (board_of table.old k)).board }
    ensures table { table.new ≡ settled_table table.old }
    ensures good { IsTable table.new }
    ensures items { (k : Kept) → Took (T.taken trace.old) (settled (board_of table.old k)).items (T.taken trace.new) }
    ensures frame { T.leads_to trace.old trace.new }
{
    if !gives_up(table.running, &table.rows, table.runrun) {
        return;
    }
    match table.pick() {
        Some(s) => trace.entry(Entry::Go(s)),
        None => trace.entry(Entry::Idle),
    }
}
