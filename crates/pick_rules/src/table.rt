//! The table of processes, as the choice of the next one sees it.
ghost use Rattle.std.specs.Prelude.{◌≡◌, ◌<◌, ◌/◌, ◌+ℤ◌, [], ◌∷◌, pos, MatchOption, ⊤};
ghost use Rattle.std.specs.Int.{int_min};
ghost use Rattle.v6_base.specs.Trace.{Took, Log};
ghost use Rattle.pick_rules.specs.Table.{IsTable, first_table};
ghost use Rattle.pick_rules.specs.Priority.{puser, setpri};
ghost use Rattle.pick_rules.specs.Sleepers.{setrun, wakeup, fall_asleep};
ghost use Rattle.pick_rules.specs.Clock.{tick, told};
ghost use Rattle.pick_rules.specs.Choice.{IsChoice, chosen, settled_by};

use crate::ageing::age;
use crate::choice::choose;
use crate::row::{Mode, Second, Stat, TableRow};
use crate::sleepers::{lie_down, make_ready, wake_all};
use v6_base::{Chan, Entry, Place, Slot, Trace};

/// The fifty slots, and the numbers by which the kernel chooses who runs: `proc.h` and `systm.h` in Lions' Commentary.
/// Slot 0 is the swapper.
#[derive(Clone, Copy)]
pub struct Table {
    pub rows: [TableRow; 50],
    /// The priority of the slot that was chosen last.
    pub curpri: i8,
    /// A new choice is asked for.
    pub runrun: bool,
    /// The swapper waits for core.
    pub runin: bool,
    /// The swapper waits for somebody out of core.
    pub runout: bool,
    /// The slot that was chosen last.
    pub last: Slot,
    /// The slot that runs.
    pub running: Option<Slot>,
    /// The ticks of this second, from 0 to 59.
    pub ticks: u8,
    /// The time in seconds since the beginning of 1970 in Greenwich: time(II).
    pub now: u32,
    /// The time at which the first of those who sleep for a time is to be woken: sleep(II).
    pub tout: u32,
}

/// A slot with no process.
pub const EMPTY_ROW: TableRow = TableRow {
    stat: Stat::Empty,
    pri: 0,
    cpu: 0,
    time: 0,
    nice: 0,
    size: 0,
    text: None,
    place: None,
    channel: None,
    calling: false,
};

impl Table {
    /// The table of a system that begins at a time: the swapper, which runs, and process 1 in slot 1.
    pub fn new(now: u32) -> Table
        ensures table { result ≡ first_table now }
        ensures good { IsTable result }
    {
        let mut rows = [EMPTY_ROW; 50];
        rows[0].stat = Stat::Ready;
        rows[1].stat = Stat::Ready;
        rows[1].size = 17;
        rows[1].place = Some(Place::Core(1));
        Table {
            rows,
            curpri: 0,
            runrun: false,
            runin: false,
            runout: false,
            last: 0,
            running: Some(0),
            ticks: 0,
            now,
            tout: 0,
        }
    }

    /// Chooses who runs: of the slots that are ready and in core the first of the least priority, round from the one after
    /// the last that was chosen. `None` where there is none. Lions' Commentary, `swtch` in `slp.c`.
    pub fn pick(&mut self) -> Option<Slot>
        requires { IsTable self.old }
        ensures choice { IsChoice self.old result }
        ensures value { result ≡ chosen self.old }
        ensures table { self.new ≡ settled_by self.old (chosen self.old) }
        ensures good { IsTable self.new }
    {
        let best = choose(&self.rows, self.last);
        self.runrun = false;
        self.running = best;
        if let Some(s) = best {
            self.last = s;
            self.curpri = self.rows[s as usize].pri;
        }
        best
    }

    /// Whom `pick` would choose. Nothing changes.
    pub fn choice(&self) -> Option<Slot>
        requires { IsTable self.now }
        ensures value { result ≡ chosen self.entry.now }
        ensures slot { MatchOption result ⊤ (λ s. s < 50) }
    {
        choose(&self.rows, self.last)
    }

    /// Gives a slot its priority in user mode anew, and asks for a new choice where that exceeds the priority of the one
    /// chosen last. Lions' Commentary, `setpri` in `slp.c`.
    #[tactic(auto, unfolding(crate::specs::Priority::setpri))]
    pub fn setpri(&mut self, s: Slot)
        requires table { IsTable self.old }
        requires slot { s < 50 }
        ensures table { self.new ≡ setpri self.old s }
        ensures good { IsTable self.new }
    {
        let row = self.rows[s as usize];
        let pri = user_pri(row.nice, row.cpu);
        self.rows[s as usize].pri = pri;
        if pri > self.curpri {
            self.runrun = true;
        }
    }

    /// Makes a slot ready. Lions' Commentary, `setrun` in `slp.c`.
    pub fn setrun(&mut self, s: Slot)
        requires table { IsTable self.old }
        requires slot { s < 50 }
        ensures table { self.new ≡ setrun self.old s }
        ensures good { IsTable self.new }
    {
        make_ready(self, s);
    }

    /// Puts a slot to sleep at a priority, for a channel; nobody runs then. Below priority 0 no signal will wake it. Slot 0
    /// leaves word of what it waits for. Lions' Commentary, `sleep` in `slp.c`.
    pub fn sleep(&mut self, s: Slot, pri: i8, chan: Chan)
        requires table { IsTable self.old }
        requires slot { s < 50 }
        ensures table { self.new ≡ fall_asleep self.old s pri chan }
        ensures good { IsTable self.new }
    {
        lie_down(self, s, pri, chan);
    }

    /// Makes each slot ready that sleeps for a channel, lowest first. Lions' Commentary, `wakeup` in `slp.c`.
    pub fn wakeup(&mut self, chan: Chan)
        requires { IsTable self.old }
        ensures table { self.new ≡ wakeup self.old chan }
        ensures good { IsTable self.new }
    {
        wake_all(self, chan);
    }

    /// Wakes those who sleep for a channel, as `wakeup` does, and tells the log.
    pub fn wake<T: Trace>(&mut self, chan: Chan, trace: &mut T)
        requires { IsTable self.old }
        ensures table { self.new ≡ wakeup self.old chan }
        ensures good { IsTable self.new }
        ensures items { Took (T.taken trace.old) (Log (Entry.Wake chan) ∷ []) (T.taken trace.new) }
        ensures frame { T.leads_to trace.old trace.new }
    {
        trace.entry(Entry::Wake(chan));
        self.wakeup(chan);
    }

    /// Takes a tick of the clock, which is a sixtieth of a second: the running slot is charged with it, or slot 0, and at
    /// the end of a second the slots age. Whoever is to be woken at this time is not woken yet: the answer says whether
    /// somebody is. Lions' Commentary, `clock` in `clock.c`.
    pub fn tick_ageing(&mut self, mode: Mode) -> Second
        requires { IsTable self.old }
        ensures told { result ≡ told self.old }
        ensures table { self.new ≡ tick mode self.old }
        ensures good { IsTable self.new }
    {
        age(self, mode)
    }
}

/// The priority in user mode.
fn user_pri(nice: i8, cpu: u8) -> i8
    ensures { result ≡ int_min (pos 127) (puser +ℤ nice +ℤ pos (cpu / 16)) }
{
    (100 + i16::from(nice) + i16::from(cpu / 16)).min(127) as i8
}
