//! Sleeping and waking: `sleep`, `wakeup` and `setrun` in Lions' Commentary, `slp.c`.
ghost use Rattle.std.specs.Prelude.{◌≡◌, ◌<◌, if◌then◌else◌};
ghost use Rattle.pick_rules.specs.Table.{IsTable, is_in_core, is_on};
ghost use Rattle.pick_rules.specs.Sleepers.{made_ready, sleeps_on, process_0_woken, runout_told, runin_told, setrun, wakeup, flagged, asleep, fall_asleep};

use crate::row::Stat;
use crate::table::Table;
use v6_base::{Chan, Place, Slot};

/// Whether what somebody sleeps for is a channel.
fn is_on(own: Option<Chan>, chan: Chan) -> bool
    ensures { result ≡ is_on own chan }
{
    match own {
        Some(own) => own == chan,
        None => false,
    }
}

/// Whether an image is in core.
pub(crate) fn is_in_core(place: Option<Place>) -> bool
    ensures { result ≡ is_in_core place }
{
    matches!(place, Some(Place::Core(_)))
}

/// Makes a slot ready, wherever its image is.
#[tactic(auto, unfolding(crate::specs::Sleepers::made_ready))]
fn wake_plainly(table: &mut Table, s: Slot)
    requires table { IsTable table.old }
    requires slot { s < 50 }
    ensures table { table.new ≡ made_ready table.old s }
    ensures good { IsTable table.new }
{
    let row = &mut table.rows[s as usize];
    row.stat = Stat::Ready;
    row.channel = None;
    if row.pri < table.curpri {
        table.runrun = true;
    }
}

/// Wakes the swapper, where it sleeps for a channel.
fn wake_swapper(table: &mut Table, chan: Chan)
    requires { IsTable table.old }
    ensures table { table.new ≡ process_0_woken table.old chan }
    ensures good { IsTable table.new }
{
    if is_on(table.rows[0].channel, chan) {
        wake_plainly(table, 0);
    }
}

impl Table {
    /// Tells the swapper that somebody is out of core, where it waits for that: `runout` in Lions' Commentary, `slp.c`.
    #[tactic(auto, unfolding(crate::specs::Sleepers::runout_told))]
    pub fn tell_swapper(&mut self)
        requires { IsTable self.old }
        ensures table { self.new ≡ runout_told self.old }
        ensures good { IsTable self.new }
    {
        if self.runout {
            self.runout = false;
            wake_swapper(self, Chan::RunOut);
        }
    }
}

/// Tells the swapper that somebody sleeps or that a second has passed, where it waits for core.
#[tactic(auto, unfolding(crate::specs::Sleepers::runin_told))]
pub(crate) fn tell_runin(table: &mut Table)
    requires { IsTable table.old }
    ensures table { table.new ≡ runin_told table.old }
    ensures good { IsTable table.new }
{
    if table.runin {
        table.runin = false;
        wake_swapper(table, Chan::RunIn);
    }
}

/// Makes a slot ready, and tells the swapper where its image is out of core.
#[tactic(auto, unfolding(crate::specs::Sleepers::setrun))]
pub(crate) fn make_ready(table: &mut Table, s: Slot)
    requires table { IsTable table.old }
    requires slot { s < 50 }
    ensures table { table.new ≡ setrun table.old s }
    ensures good { IsTable table.new }
{
    let loaded = s == 0 || is_in_core(table.rows[s as usize].place);
    wake_plainly(table, s);
    if !loaded {
        table.tell_swapper();
    }
}

/// Makes a slot ready, where it sleeps for a channel.
fn wake_sleeper(table: &mut Table, s: Slot, chan: Chan)
    requires table { IsTable table.old }
    requires slot { s < 50 }
    ensures table { table.new ≡ (if sleeps_on table.old s chan then setrun table.old s else table.old) }
    ensures good { IsTable table.new }
{
    if is_on(table.rows[s as usize].channel, chan) {
        make_ready(table, s);
    }
}

/// Makes each slot ready that sleeps for a channel, lowest first.
pub(crate) fn wake_all(table: &mut Table, chan: Chan)
    requires { IsTable table.old }
    ensures table { table.new ≡ wakeup table.old chan }
    ensures good { IsTable table.new }
{
    for s in 0..50 {
        wake_sleeper(table, s, chan);
    }
}

/// Lays a slot down to sleep; nobody runs then.
fn lay_down(table: &mut Table, s: Slot, pri: i8, chan: Chan)
    requires table { IsTable table.old }
    requires slot { s < 50 }
    ensures table { table.new ≡ asleep table.old s pri chan }
    ensures good { IsTable table.new }
{
    let row = &mut table.rows[s as usize];
    row.stat = if pri < 0 {
        Stat::Sleeping
    } else {
        Stat::Waiting
    };
    row.pri = pri;
    row.channel = Some(chan);
    row.calling = true;
    table.running = None;
}

/// Leaves word of what the swapper waits for, where the slot is its.
fn flag(table: &mut Table, s: Slot, chan: Chan)
    requires { IsTable table.old }
    ensures table { table.new ≡ flagged table.old s chan }
    ensures good { IsTable table.new }
{
    if s == 0 {
        if chan == Chan::RunIn {
            table.runin = true;
        } else {
            table.runout = true;
        }
    }
}

/// Puts a slot to sleep. Where signals may wake it, the swapper is told, for its image may be put out of core.
#[tactic(auto, unfolding(crate::specs::Sleepers::fall_asleep))]
pub(crate) fn lie_down(table: &mut Table, s: Slot, pri: i8, chan: Chan)
    requires table { IsTable table.old }
    requires slot { s < 50 }
    ensures table { table.new ≡ fall_asleep table.old s pri chan }
    ensures good { IsTable table.new }
{
    lay_down(table, s, pri, chan);
    if pri >= 0 {
        tell_runin(table);
    }
    flag(table, s, chan);
}
