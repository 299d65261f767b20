//! The clock: `clock` in Lions' Commentary, `clock.c`.
ghost use Rattle.std.specs.Prelude.{◌≡◌, ◌<◌, ◌+◌, min};
ghost use Rattle.std.specs.Option.{unwrap_or};
ghost use Rattle.pick_rules.specs.Search.{each_slot};
ghost use Rattle.pick_rules.specs.Table.{IsTable};
ghost use Rattle.pick_rules.specs.Clock.{charged, aged, second, tick, told};

use crate::row::{Mode, Second, Stat, TableRow};
use crate::sleepers::tell_runin;
use crate::table::Table;
use v6_base::Slot;

/// The ticks of a second.
const TICKS: u8 = 60;

/// The slot that is charged with a tick: the running one, or slot 0.
fn charged_slot(running: Option<Slot>) -> Slot
    ensures { result ≡ unwrap_or running 0 }
{
    running.unwrap_or(0)
}

/// Charges a slot with a tick.
fn charge(table: &mut Table)
    requires { IsTable table.old }
    ensures table { table.new ≡ charged table.old }
    ensures good { IsTable table.new }
{
    let s = charged_slot(table.running);
    let row = &mut table.rows[s as usize];
    row.cpu = row.cpu.saturating_add(1);
}

/// For how many seconds a slot has been where it is, a second later.
fn second_later(time: u8) -> u8
    ensures { result ≡ min (time + 1) 127 }
{
    time.saturating_add(1).min(127)
}

/// Lets a second pass for a slot in use.
#[tactic(auto, unfolding(crate::specs::Clock::aged))]
fn age_slot(table: &mut Table, s: Slot)
    requires table { IsTable table.old }
    requires slot { s < 50 }
    ensures table { table.new ≡ aged table.old s }
    ensures good { IsTable table.new }
{
    let row = table.rows[s as usize];
    if row.stat == Stat::Empty {
        return;
    }
    table.rows[s as usize] = TableRow {
        time: second_later(row.time),
        cpu: row.cpu.saturating_sub(10),
        ..row
    };
    if row.pri > 100 {
        table.setpri(s);
    }
}

/// Lets a second pass for all slots, lowest first.
fn age_all(table: &mut Table)
    requires { IsTable table.old }
    ensures table { table.new ≡ each_slot aged table.old }
    ensures good { IsTable table.new }
{
    for s in 0..50 {
        age_slot(table, s);
    }
}

/// Ends a second.
#[tactic(auto, unfolding(crate::specs::Clock::second))]
fn end_second(table: &mut Table)
    requires { IsTable table.old }
    ensures table { table.new ≡ second table.old }
    ensures good { IsTable table.new }
{
    table.ticks = 0;
    table.now = table.now.wrapping_add(1);
    if table.now % 4 == 0 {
        table.runrun = true;
    }
    age_all(table);
    tell_runin(table);
}

/// Takes a tick. It says whether that ends a second, and whether sleepers are to be woken then.
#[tactic(auto, unfolding(crate::specs::Clock::ticked))]
pub(crate) fn age(table: &mut Table, mode: Mode) -> Second
    requires { IsTable table.old }
    ensures told { result ≡ told table.old }
    ensures table { table.new ≡ tick mode table.old }
    ensures good { IsTable table.new }
{
    charge(table);
    if table.ticks < TICKS - 1 {
        table.ticks += 1;
        return Second::No;
    }
    let tout = table.now.wrapping_add(1) == table.tout;
    let running = charged_slot(table.running);
    end_second(table);
    if mode == Mode::User {
        table.setpri(running);
    }
    Second::Yes { tout }
}
