//! The parts of a kernel, and what each event does to them.
ghost use Rattle.std.specs.Prelude.{◌≡◌, ◌≢◌, ◌<◌, ◌≤◌, ℕ, Bool, IsTrue, true, false, None, Some, map};
ghost use Rattle.v6_base.specs.Trace.{Took};
ghost use Rattle.fs_nodes.specs.FileSystem.{SameRest};
ghost use Rattle.pick_rules.specs.Choice.{chosen, settle};
ghost use Rattle.pick_rules.specs.Effects.{Show};
ghost use Rattle.pick_rules.specs.Logged.{logged};
ghost use Rattle.pick_rules.specs.Swapper.{candidate};
ghost use Rattle.image_keep.specs.Kept.{HasImage};
ghost use Rattle.abstract_unix.specs.declared.ends.Ends.TheVariants.{AtEnd};
ghost use Rattle.abstract_unix.specs.Unix.{Unix, System, Started};
ghost use Rattle.abstract_unix.specs.Endings.{is_early};
ghost use Rattle.abstract_unix.specs.Turn.{Happened, after_slot, turned, ticked_by, turned_by, ending_of, turn, turn_of, settled, settled_after, pass_of};
ghost use Rattle.abstract_unix.specs.Outside.{calls, calls_show, charged, mode_of, tick_entry, is_user_mode, tick_of, with_key, key_lines, typed_of, hangup_of, paced_of};
ghost use Rattle.unix_core.specs.Slots.{IsTimed, IsCounted};
ghost use Rattle.unix_core.specs.Parts.{unix_of, board_in, system_at, turn_at, turn_end, phase_of, slot_in, one_before, is_over, IsGood, IsReady, IsRunning, IsCovered, IsKernel, IsKnown, IsStill, HasCome, HasStepped, Takes, delivers_where};

use crate::delivery::{deliver_after, deliver_due};
use crate::files::see_procs;
use crate::process::{come_to, resume};
use crate::settling::{end_turn, settle, wake};
use crate::slots::{count, count_turn, reach, renew, set_pace};
use crate::world::World;
use abstract_unix::{Ending, Turned};
use image_keep::Fixed;
use lines_eight::{keys_of, show_of};
use pdp_step::Outcome;
use pick_rules::{Mode, Second};
use sig_core::SIGHUP;
use swap_sched::pass;
use sys_procs::signal_line;
use tty_line::Keyed;
use u_area::{NOTHING_PENDING, pending_call};
use v6_base::{Chan, Entry, PanicKind, Slot, Trace};

/// How far a run has come, and what the next slot finds.
#[derive(Clone, Copy)]
pub(crate) enum Stage {
    /// The run hasn't been started.
    New,
    /// A process executes instructions, of which this is fixed.
    Running(Fixed),
    /// A process goes on with a call, or nobody runs but the swapper, or nobody.
    Resting,
    /// The run has come to a panic, and takes no event any more.
    Stopped,
    /// All that has changed is on the disk.
    Finished,
}

/// The parts of a kernel.
#[derive(Drop)]
pub(crate) struct Machine {
    pub(crate) stage: Stage,
    /// What the last instruction came to that wasn't just done.
    pub(crate) came: Outcome,
    pub(crate) world: World,
}

/// The line of the log for a tick.
fn tick_entry(mode: Mode) -> Entry
    ensures { result ≡ tick_entry mode }
{
    match mode {
        Mode::User => Entry::TickUser,
        Mode::Kernel => Entry::TickKernel,
        Mode::Idle => Entry::TickIdle,
    }
}

/// Whether a second that ends calls for those who sleep for a time.
fn is_due(second: Second) -> bool
    ensures second { (tout : Bool) → second ≡ Second.Yes tout → result ≡ tout }
    ensures within { second ≡ Second.No → result ≡ false }
{
    match second {
        Second::Yes { tout } => tout,
        Second::No => false,
    }
}

/// Whether a tick is as a trap: a second in user mode.
fn is_as_trap(mode: Mode, second: Second) -> bool
    ensures second { (tout : Bool) → second ≡ Second.Yes tout → result ≡ is_user_mode mode }
    ensures within { second ≡ Second.No → result ≡ false }
{
    match (mode, second) {
        (Mode::User, Second::Yes { .. }) => true,
        _ => false,
    }
}

/// Whether a key calls for those who wait for keys.
fn calls(keyed: Keyed) -> bool
    ensures { result ≡ calls keyed }
{
    match keyed {
        Keyed::Nothing => false,
        Keyed::Ready | Keyed::Flushed { .. } | Keyed::Signal { .. } => true,
    }
}

/// Whether a key calls for those who wait for room, as bytes that waited to go out are lost.
fn calls_show(keyed: Keyed) -> bool
    ensures { result ≡ calls_show keyed }
{
    match keyed {
        Keyed::Nothing | Keyed::Ready => false,
        Keyed::Flushed { show } | Keyed::Signal { show, .. } => show,
    }
}

/// What a turn came to that ended so.
fn turned(ending: Ending) -> Turned
    ensures answer { result ≡ turned_by (ending_of ending) false }
    ensures goes { result ≡ Turned.Ran → ending_of ending ≡ AtEnd }
    ensures stops { result ≢ Turned.Ran → is_early (ending_of ending) ≡ true }
{
    match ending {
        Ending::Panic(kind) => Turned::Panic(kind),
        Ending::Next | Ending::Trapped | Ending::Slept { .. } | Ending::Ended => Turned::Ran,
    }
}

impl Machine {
    /// Sees what the next slot finds, when the kernel has settled.
    #[inline(always)]
    fn refresh(&mut self)
        requires good { IsGood self.old.world }
        requires counted { IsCounted self.old.world.slots (unix_of self.old.world) }
        requires settled { (s : ℕ) → self.old.world.procs.table.running ≡ Some s → settle self.old.world.procs.table ≡ None }
        requires idle { self.old.world.procs.table.running ≡ None → chosen self.old.world.procs.table ≡ None }
        ensures kernel { IsKernel self.new.stage self.new.world }
        ensures started { phase_of self.new.stage ≡ Started }
        ensures world { self.new.world ≡ self.old.world }
    {
        match self.world.procs.table.running {
            Some(s) if s != 0 => self.enter_user(s),
            _ => self.rest(),
        }
    }

    /// Rests. Where it does already nothing is written: the stage is as large as what stays fixed of a process.
    #[inline(always)]
    fn rest(&mut self)
        ensures stage { self.new.stage ≡ Stage.Resting }
        ensures world { self.new.world ≡ self.old.world }
    {
        match self.stage {
            Stage::Resting => {}
            _ => self.stage = Stage::Resting,
        }
    }

    /// Sees whether a process that runs executes instructions, and what then stays fixed of it.
    #[inline(always)]
    fn enter_user(&mut self, s: Slot)
        requires ready { IsReady self.old.world s }
        requires settled { settle self.old.world.procs.table ≡ None }
        requires counted { IsCounted self.old.world.slots (unix_of self.old.world) }
        ensures kernel { IsKernel self.new.stage self.new.world }
        ensures started { phase_of self.new.stage ≡ Started }
        ensures world { self.new.world ≡ self.old.world }
    {
        if pending_call(self.world.procs.images.area_bytes(s)) != NOTHING_PENDING {
            self.rest();
        } else if !self.stays(s) {
            self.begin(s);
        }
    }

    /// Whether what stays fixed of the process in a slot is known already.
    #[inline(always)]
    fn stays(&self, s: Slot) -> bool
        requires { HasImage self.now.world.procs.images.kept s }
        ensures { IsTrue result → IsKnown self.now.stage self.now.world s }
    {
        match &self.stage {
            Stage::Running(fixed) => self.world.procs.images.is_fixed(fixed, s),
            _ => false,
        }
    }

    /// Finds what stays fixed of the process in a slot. It stands out of line: after most events it has stayed.
    #[cold]
    #[inline(never)]
    fn begin(&mut self, s: Slot)
        requires { HasImage self.old.world.procs.images.kept s }
        ensures known { IsKnown self.new.stage self.old.world s }
        ensures world { self.new.world ≡ self.old.world }
    {
        self.stage = Stage::Running(self.world.procs.images.fixed(s));
    }

    /// Settles, after an event.
    #[inline(always)]
    fn settle<T: Trace>(&mut self, trace: &mut T)
        requires good { IsGood self.old.world }
        requires counted { IsCounted self.old.world.slots (unix_of self.old.world) }
        ensures kernel { IsKernel self.new.stage self.new.world }
        ensures started { phase_of self.new.stage ≡ Started }
        ensures system { system_at self.new.world ≡ record (system_at self.old.world) { board = (settled (board_in self.old.world)).board } }
        ensures files { self.new.world.files ≡ self.old.world.files }
        ensures images { self.new.world.procs.images ≡ self.old.world.procs.images }
        ensures blocks { self.new.world.files.tree.nodes.blocks ≡ self.old.world.files.tree.nodes.blocks }
        ensures items { Took (T.taken trace.old) (settled (board_in self.old.world)).items (T.taken trace.new) }
        ensures frame { T.leads_to trace.old trace.new }
    {
        settle(&mut self.world.procs.table, trace);
        self.refresh();
    }

    /// Settles, after an event with which bytes may have come to wait.
    #[inline(always)]
    fn settle_anew<T: Trace>(&mut self, trace: &mut T)
        requires good { IsGood self.old.world }
        requires timed { IsTimed self.old.world.slots (unix_of self.old.world) }
        ensures kernel { IsKernel self.new.stage self.new.world }
        ensures started { phase_of self.new.stage ≡ Started }
        ensures system { system_at self.new.world
            ≡ record (system_at self.old.world) { board = (settled (board_in self.old.world)).board } }
        ensures files { self.new.world.files ≡ self.old.world.files }
        ensures images { self.new.world.procs.images ≡ self.old.world.procs.images }
        ensures blocks { self.new.world.files.tree.nodes.blocks ≡ self.old.world.files.tree.nodes.blocks }
        ensures items { Took (T.taken trace.old) (settled (board_in self.old.world)).items (T.taken trace.new) }
        ensures frame { T.leads_to trace.old trace.new }
    {
        renew(&mut self.world);
        self.settle(trace);
    }

    /// Counts a slot in which nothing was logged, and which answers this: an instruction was just done, or nobody ran. Where
    /// somebody is woken with its end, the kernel settles.
    #[inline(always)]
    pub(crate) fn count_slot<T: Trace>(&mut self, answer: Turned, trace: &mut T) -> Turned
        requires kernel { IsKernel self.old.stage self.old.world }
        requires started { phase_of self.old.stage ≡ Started }
        requires fresh { (unix_of self.old.world).timing.passed ≤ 3000000000 }
        ensures answer { result ≡ answer }
        ensures takes { (h : Happened) → IsStill h self.old.world → Takes (settled_after (after_slot h)) self.new.stage self.new.world }
        ensures tree { self.new.world.files.tree ≡ self.old.world.files.tree }
        ensures items { (h : Happened) → IsStill h self.old.world
            → Took (T.taken trace.old) (settled_after (after_slot h)).items (T.taken trace.new) }
        ensures frame { T.leads_to trace.old trace.new }
    {
        self.world.slots.left -= 1;
        if self.world.slots.left == 0 {
            return self.reach(answer, trace);
        }
        answer
    }

    /// The slot that was due has been taken, and nothing was logged in it. It stands out of line: a run has few such slots. It
    /// hands the answer back, so that who calls it last needs no frame.
    #[cold]
    #[inline(never)]
    fn reach<T: Trace>(&mut self, answer: Turned, trace: &mut T) -> Turned
        requires left { self.old.world.slots.left ≡ 0 }
        requires kernel { IsKernel self.old.stage (one_before self.old.world) }
        requires started { phase_of self.old.stage ≡ Started }
        requires fresh { self.old.world.slots.due ≤ 3000000001 }
        ensures answer { result ≡ answer }
        ensures takes { (h : Happened) → IsStill h (one_before self.old.world)
            → Takes (settled_after (after_slot h)) self.new.stage self.new.world }
        ensures tree { self.new.world.files.tree ≡ self.old.world.files.tree }
        ensures items { (h : Happened) → IsStill h (one_before self.old.world)
            → Took (T.taken trace.old) (settled_after (after_slot h)).items (T.taken trace.new) }
        ensures frame { T.leads_to trace.old trace.new }
    {
        if reach(&mut self.world, trace) {
            self.settle(trace);
            return answer;
        }
        answer
    }

    /// Takes the first pass of the swapper, which is no slot: the kernel settles, unless it ends with a panic.
    pub(crate) fn first_pass<T: Trace>(&mut self, trace: &mut T) -> Turned
        requires good { IsGood self.old.world }
        requires counted { IsCounted self.old.world.slots (unix_of self.old.world) }
        requires runs { self.old.world.procs.table.running ≡ Some 0 }
        ensures answer { result ≡ turned (settled_after (pass_of (system_at self.old.world))) }
        ensures takes { Takes (settled_after (pass_of (system_at self.old.world))) self.new.stage self.new.world }
        ensures rest { SameRest self.old.world.files.tree.nodes self.new.world.files.tree.nodes }
        ensures files { self.new.world.files ≡ self.old.world.files }
        ensures images { candidate self.old.world.procs.table ≡ None
            → self.new.world.procs.images ≡ self.old.world.procs.images }
        ensures items { Took (T.taken trace.old)
            (settled_after (pass_of (system_at self.old.world))).items (T.taken trace.new) }
        ensures frame { T.leads_to trace.old trace.new }
    {
        let first = pass(
            &mut self.world.procs.table,
            &mut self.world.procs.images,
            trace,
        );
        see_procs(&self.world.procs);
        match first {
            Ok(()) => {
                self.settle(trace);
                Turned::Ran
            }
            Err(kind) => {
                self.stage = Stage::Stopped;
                Turned::Panic(kind)
            }
        }
    }

    /// Takes a slot of the swapper: its pass, and the kernel settles, unless it ends with a panic. It stands out of line, as
    /// `going_slot` does.
    #[inline(never)]
    fn swap_slot<T: Trace>(&mut self, trace: &mut T) -> Turned
        requires good { IsGood self.old.world }
        requires counted { IsCounted self.old.world.slots (unix_of self.old.world) }
        requires fresh { (unix_of self.old.world).timing.passed ≤ 3000000000 }
        requires runs { self.old.world.procs.table.running ≡ Some 0 }
        ensures answer { result ≡ turned (settled_after (after_slot (pass_of (system_at self.old.world)))) }
        ensures takes { Takes (settled_after (after_slot (pass_of (system_at self.old.world)))) self.new.stage self.new.world }
        ensures rest { SameRest self.old.world.files.tree.nodes self.new.world.files.tree.nodes }
        ensures items { Took (T.taken trace.old)
            (settled_after (after_slot (pass_of (system_at self.old.world)))).items (T.taken trace.new) }
        ensures frame { T.leads_to trace.old trace.new }
    {
        let passed = pass(
            &mut self.world.procs.table,
            &mut self.world.procs.images,
            trace,
        );
        see_procs(&self.world.procs);
        match passed {
            Ok(()) => {
                let _woken = count(&mut self.world, trace);
                self.settle(trace);
                Turned::Ran
            }
            Err(kind) => {
                self.stage = Stage::Stopped;
                Turned::Panic(kind)
            }
        }
    }

    /// Takes a turn of a process that goes on with a call in which it slept. A signal that is due then is delivered.
    fn go_on<T: Trace>(&mut self, s: Slot, trace: &mut T) -> Ending
        requires kernel { IsKernel self.old.stage self.old.world }
        requires runs { self.old.world.procs.table.running ≡ Some s }
        requires user { 0 < s }
        requires resting { self.old.stage ≡ Stage.Resting }
        ensures slots { self.new.world.slots ≡ self.old.world.slots }
        ensures come { HasCome (board_in self.old.world)
            (turn (system_at self.old.world) s) result self.new.world }
        ensures good { is_over result ≡ false → IsGood self.new.world }
        ensures covered { is_over result ≡ true → IsCovered self.new.world }
        ensures runs { is_over result ≡ false → result ≢ Ending.Ended → self.new.world.procs.table.running ≡ Some s }
        ensures rest { SameRest self.old.world.files.tree.nodes self.new.world.files.tree.nodes }
        ensures items { Took (T.taken trace.old) (logged (board_in self.old.world)
            (turn (system_at self.old.world) s).effects).items (T.taken trace.new) }
        ensures frame { T.leads_to trace.old trace.new }
    {
        let ending = resume(&mut self.world, s, trace);
        deliver_after(&mut self.world, s, ending, trace)
    }

    /// Ends a turn of a process that has come to this: the kernel settles, where the run goes on.
    #[inline(always)]
    fn end<T: Trace>(&mut self, s: Slot, ending: Ending, trace: &mut T) -> Turned
        requires good { is_over ending ≡ false → IsGood self.old.world }
        requires covered { is_over ending ≡ true → IsCovered self.old.world }
        requires within { self.old.world.slots.left ≤ self.old.world.slots.due }
        requires user { 0 < s }
        requires slot { s < 50 }
        requires runs { is_over ending ≡ false → ending ≢ Ending.Ended → self.old.world.procs.table.running ≡ Some s }
        requires timed { is_over ending ≡ false → IsTimed self.old.world.slots (unix_of self.old.world) }
        requires fresh { is_over ending ≡ false → (unix_of self.old.world).timing.passed ≤ 3000000000 }
        ensures answer { result ≡ turned (turn_end self.old.world s ending) }
        ensures takes { Takes (turn_end self.old.world s ending) self.new.stage self.new.world }
        ensures blocks { self.new.world.files.tree.nodes.blocks ≡ self.old.world.files.tree.nodes.blocks }
        ensures items { Took (T.taken trace.old) (turn_end self.old.world s ending).items (T.taken trace.new) }
        ensures frame { T.leads_to trace.old trace.new }
    {
        match turned(ending) {
            Turned::Ran => {
                end_turn(&mut self.world.procs.table, s, ending, trace);
                count_turn(&mut self.world, trace);
                self.settle(trace);
                Turned::Ran
            }
            stopped => {
                self.stage = Stage::Stopped;
                stopped
            }
        }
    }

    /// Takes what the last instruction came to, where it wasn't just done, with the signal that is due then, and settles. It
    /// stands out of line, beside the loop over slots, and what it takes stays in its place: a copy of it would cost each slot.
    #[inline(never)]
    pub(crate) fn after_step<T: Trace>(&mut self, trace: &mut T) -> Turned
        requires running { (f : Fixed) × (self.old.stage ≡ Stage.Running f) }
        requires user { (f : Fixed) → self.old.stage ≡ Stage.Running f → IsRunning f self.old.world }
        requires counted { IsCounted self.old.world.slots (unix_of self.old.world) }
        requires fresh { (unix_of self.old.world).timing.passed ≤ 3000000000 }
        ensures answer { (m : System) → HasStepped m self.old.world (slot_in self.old.stage) self.old.came
            → result ≡ turned (settled_after (after_slot (turn_of m (slot_in self.old.stage) (turn m (slot_in self.old.stage))))) }
        ensures takes { (m : System) → HasStepped m self.old.world (slot_in self.old.stage) self.old.came
            → Takes (settled_after (after_slot (turn_of m (slot_in self.old.stage) (turn m (slot_in self.old.stage))))) self.new.stage self.new.world }
        ensures kernel { IsKernel self.new.stage self.new.world }
        ensures rest { SameRest self.old.world.files.tree.nodes self.new.world.files.tree.nodes }
        ensures items { (m : System) → HasStepped m self.old.world (slot_in self.old.stage) self.old.came → Took (T.taken trace.old)
            (settled_after (after_slot (turn_of m (slot_in self.old.stage) (turn m (slot_in self.old.stage))))).items (T.taken trace.new) }
        ensures frame { T.leads_to trace.old trace.new }
    {
        match &self.stage {
            Stage::Running(fixed) => {
                let s = fixed.slot;
                let came = self.came;
                self.came = Outcome::Next; // it may tell where a stack pointer was
                let ending = come_to(&mut self.world, fixed, came, trace);
                let ending = deliver_after(&mut self.world, s, ending, trace);
                self.end(s, ending, trace)
            }
            _ => unreachable!(),
        }
    }

    /// Takes a slot in which a process goes on with a call. It stands out of line: so a slot in which nobody runs saves no
    /// registers.
    #[inline(never)]
    fn going_slot<T: Trace>(&mut self, s: Slot, trace: &mut T) -> Turned
        requires kernel { IsKernel self.old.stage self.old.world }
        requires resting { self.old.stage ≡ Stage.Resting }
        requires runs { self.old.world.procs.table.running ≡ Some s }
        requires user { 0 < s }
        requires fresh { (unix_of self.old.world).timing.passed ≤ 3000000000 }
        ensures answer { result ≡ turned (turn_at self.old.world) }
        ensures takes { Takes (turn_at self.old.world) self.new.stage self.new.world }
        ensures rest { SameRest self.old.world.files.tree.nodes self.new.world.files.tree.nodes }
        ensures items { Took (T.taken trace.old)
            (turn_at self.old.world).items (T.taken trace.new) }
        ensures frame { T.leads_to trace.old trace.new }
    {
        let ending = self.go_on(s, trace);
        self.end(s, ending, trace)
    }

    /// Takes a slot in which no process just executes an instruction. Where nobody runs it only counts; what else there is
    /// stands out of line.
    #[inline(always)]
    pub(crate) fn other_slot<T: Trace>(&mut self, trace: &mut T) -> Turned
        requires kernel { IsKernel self.old.stage self.old.world }
        requires resting { self.old.stage ≡ Stage.Resting }
        requires fresh { (unix_of self.old.world).timing.passed ≤ 3000000000 }
        ensures answer { result ≡ turned (turn_at self.old.world) }
        ensures takes { Takes (turn_at self.old.world) self.new.stage self.new.world }
        ensures rest { SameRest self.old.world.files.tree.nodes self.new.world.files.tree.nodes }
        ensures items { Took (T.taken trace.old)
            (turn_at self.old.world).items (T.taken trace.new) }
        ensures frame { T.leads_to trace.old trace.new }
    {
        match self.world.procs.table.running {
            None => self.count_slot(Turned::Idle, trace),
            Some(0) => self.swap_slot(trace),
            Some(s) => self.going_slot(s, trace),
        }
    }

    /// Where a tick comes.
    fn mode(&self) -> Mode
        requires { IsGood self.now.world }
        ensures { result ≡ mode_of (system_at self.now.world) }
    {
        match self.world.procs.table.running {
            None => Mode::Idle,
            Some(0) => Mode::Kernel,
            Some(s) => {
                if pending_call(self.world.procs.images.area_bytes(s)) == NOTHING_PENDING {
                    Mode::User
                } else {
                    Mode::Kernel
                }
            }
        }
    }

    /// Charges the process that runs with a tick: times(II).
    fn charge(&mut self, mode: Mode)
        requires { IsGood self.old.world }
        ensures good { IsGood self.new.world }
        ensures stage { self.new.stage ≡ self.old.stage }
        ensures unix { unix_of self.new.world ≡ charged (unix_of self.old.world) mode self.old.world.procs.table.running }
        ensures table { self.new.world.procs.table ≡ self.old.world.procs.table }
        ensures board { board_in self.new.world ≡ board_in self.old.world }
        ensures slots { self.new.world.slots ≡ self.old.world.slots }
        ensures blocks { self.new.world.files.tree.nodes.blocks ≡ self.old.world.files.tree.nodes.blocks }
    {
        let Some(s) = self.world.procs.table.running else {
            return;
        };
        if s == 0 {
            return;
        }
        match mode {
            Mode::User => self.world.procs.images.add_tick(s, false),
            Mode::Kernel => self.world.procs.images.add_tick(s, true),
            Mode::Idle => {}
        }
    }

    /// Delivers the signal that is due to the process that runs, where a tick is as a trap.
    #[tactic(auto, using(v6_base::proofs::Took::took_nothing))]
    fn deliver<T: Trace>(&mut self, as_trap: bool, trace: &mut T) -> Ending
        requires good { IsGood self.old.world }
        requires user { as_trap ≡ true → is_user_mode (mode_of (system_at self.old.world)) ≡ true }
        ensures come { HasCome (board_in self.old.world)
            (delivers_where as_trap (unix_of self.old.world) self.old.world.procs.table.running) result self.new.world }
        ensures good { is_over result ≡ false → IsGood self.new.world }
        ensures covered { is_over result ≡ true → IsCovered self.new.world }
        ensures stage { self.new.stage ≡ self.old.stage }
        ensures slots { self.new.world.slots ≡ self.old.world.slots }
        ensures items { Took (T.taken trace.old) (logged (board_in self.old.world)
            (delivers_where as_trap (unix_of self.old.world) self.old.world.procs.table.running).effects).items
            (T.taken trace.new) }
        ensures frame { T.leads_to trace.old trace.new }
        ensures rest { SameRest self.old.world.files.tree.nodes self.new.world.files.tree.nodes }
    {
        match self.world.procs.table.running {
            Some(s) if as_trap => deliver_due(&mut self.world, s, trace),
            _ => Ending::Trapped,
        }
    }

    /// Takes a tick of the clock. In user mode a second is as a trap: a signal that is due is delivered.
    ///
    /// # Errors
    ///
    /// `Swap`, `Zombie`: the delivery needs a place, and there is none. The system stops with a panic.
    pub(crate) fn tick<T: Trace>(&mut self, trace: &mut T) -> Result<(), PanicKind>
        requires kernel { IsKernel self.old.stage self.old.world }
        requires started { phase_of self.old.stage ≡ Started }
        ensures answer { result ≡ ticked_by (settled_after (tick_of (system_at self.old.world))).ending }
        ensures takes { Takes (settled_after (tick_of (system_at self.old.world))) self.new.stage self.new.world }
        ensures rest { SameRest self.old.world.files.tree.nodes self.new.world.files.tree.nodes }
        ensures items { Took (T.taken trace.old)
            (settled_after (tick_of (system_at self.old.world))).items (T.taken trace.new) }
        ensures frame { T.leads_to trace.old trace.new }
    {
        let mode = self.mode();
        self.charge(mode);
        let second = self.world.procs.table.tick_ageing(mode);
        trace.entry(tick_entry(mode));
        wake(
            &mut self.world.procs.table,
            is_due(second),
            Chan::Tout,
            trace,
        );
        match self.deliver(is_as_trap(mode, second), trace) {
            Ending::Panic(kind) => {
                self.stage = Stage::Stopped;
                Err(kind)
            }
            _ => {
                self.settle_anew(trace);
                Ok(())
            }
        }
    }

    /// Sends the signal that a key of a line makes, if it makes one, to all that have the line.
    fn send_key<T: Trace>(&mut self, l: u8, keyed: Keyed, trace: &mut T)
        requires { IsGood self.old.world }
        ensures good { IsGood self.new.world }
        ensures unix { unix_of self.new.world ≡ with_key l keyed (unix_of self.old.world) }
        ensures board { board_in self.new.world
            ≡ (logged {W = Unix} (board_in self.old.world) (map Show (key_lines l keyed (unix_of self.old.world)))).board }
        ensures items { Took (T.taken trace.old) (key_lines l keyed (unix_of self.old.world)) (T.taken trace.new) }
        ensures frame { T.leads_to trace.old trace.new }
        ensures files { self.new.world.files ≡ self.old.world.files }
        ensures images { self.new.world.procs.images ≡ self.old.world.procs.images }
        ensures slots { self.new.world.slots ≡ self.old.world.slots }
    {
        if let Keyed::Signal { sig, .. } = keyed {
            signal_line(&mut self.world.procs, l, sig, trace);
        }
    }

    /// A byte is typed on a line: the signal that it makes is sent, and who waits for it is woken. A line that isn't there
    /// drops the byte.
    fn take_key<T: Trace>(&mut self, l: u8, byte: u8, trace: &mut T)
        requires good { IsGood self.old.world }
        requires timed { IsTimed self.old.world.slots (unix_of self.old.world) }
        ensures good { IsGood self.new.world }
        ensures timed { IsTimed self.new.world.slots (unix_of self.new.world) }
        ensures unix { unix_of self.new.world ≡ (typed_of (system_at self.old.world) l byte).unix }
        ensures board { board_in self.new.world ≡ (typed_of (system_at self.old.world) l byte).log.board }
        ensures tree { self.new.world.files.tree ≡ self.old.world.files.tree }
        ensures images { self.new.world.procs.images ≡ self.old.world.procs.images }
        ensures items { Took (T.taken trace.old) (typed_of (system_at self.old.world) l byte).log.items (T.taken trace.new) }
        ensures frame { T.leads_to trace.old trace.new }
    {
        if l >= self.world.files.lines.count() {
            return;
        }
        let keyed = self.world.files.lines.typed(l, byte, trace);
        self.send_key(l, keyed, trace);
        let table = &mut self.world.procs.table;
        wake(table, calls(keyed), keys_of(l), trace);
        wake(table, calls_show(keyed), show_of(l), trace);
    }

    /// Takes a byte that is typed on a line, and settles.
    pub(crate) fn typed<T: Trace>(&mut self, l: u8, byte: u8, trace: &mut T)
        requires kernel { IsKernel self.old.stage self.old.world }
        requires started { phase_of self.old.stage ≡ Started }
        ensures takes { Takes (settled_after (typed_of (system_at self.old.world) l byte)) self.new.stage self.new.world }
        ensures rest { SameRest self.old.world.files.tree.nodes self.new.world.files.tree.nodes }
        ensures tree { self.new.world.files.tree ≡ self.old.world.files.tree }
        ensures images { self.new.world.procs.images ≡ self.old.world.procs.images }
        ensures items { Took (T.taken trace.old)
            (settled_after (typed_of (system_at self.old.world) l byte)).items (T.taken trace.new) }
        ensures frame { T.leads_to trace.old trace.new }
    {
        self.take_key(l, byte, trace);
        self.settle_anew(trace);
    }

    /// A line hangs up: those whose terminal it is have a signal, and it is flushed; who waits for it is woken. One that isn't
    /// there or isn't open ignores it.
    fn hang_up<T: Trace>(&mut self, l: u8, trace: &mut T)
        requires good { IsGood self.old.world }
        requires timed { IsTimed self.old.world.slots (unix_of self.old.world) }
        ensures good { IsGood self.new.world }
        ensures timed { IsTimed self.new.world.slots (unix_of self.new.world) }
        ensures unix { unix_of self.new.world ≡ (hangup_of (system_at self.old.world) l).unix }
        ensures board { board_in self.new.world ≡ (hangup_of (system_at self.old.world) l).log.board }
        ensures tree { self.new.world.files.tree ≡ self.old.world.files.tree }
        ensures images { self.new.world.procs.images ≡ self.old.world.procs.images }
        ensures items { Took (T.taken trace.old) (hangup_of (system_at self.old.world) l).log.items (T.taken trace.new) }
        ensures frame { T.leads_to trace.old trace.new }
    {
        if l >= self.world.files.lines.count() {
            return;
        }
        if !self.world.files.lines.is_open(l) {
            return;
        }
        signal_line(&mut self.world.procs, l, SIGHUP, trace);
        let show = self.world.files.lines.flush(l);
        let table = &mut self.world.procs.table;
        wake(table, true, keys_of(l), trace);
        wake(table, show, show_of(l), trace);
    }

    /// Takes the hang-up of a line, and settles.
    pub(crate) fn hangup<T: Trace>(&mut self, l: u8, trace: &mut T)
        requires kernel { IsKernel self.old.stage self.old.world }
        requires started { phase_of self.old.stage ≡ Started }
        ensures takes { Takes (settled_after (hangup_of (system_at self.old.world) l)) self.new.stage self.new.world }
        ensures started { phase_of self.new.stage ≡ Started }
        ensures rest { SameRest self.old.world.files.tree.nodes self.new.world.files.tree.nodes }
        ensures tree { self.new.world.files.tree ≡ self.old.world.files.tree }
        ensures images { self.new.world.procs.images ≡ self.old.world.procs.images }
        ensures items { Took (T.taken trace.old)
            (settled_after (hangup_of (system_at self.old.world) l)).items (T.taken trace.new) }
        ensures frame { T.leads_to trace.old trace.new }
    {
        self.hang_up(l, trace);
        self.settle_anew(trace);
    }

    /// Sets after how many slots the lines send, counted from now on. The kernel settles where somebody is woken.
    pub(crate) fn set_pace<T: Trace>(&mut self, n: u32, trace: &mut T)
        requires kernel { IsKernel self.old.stage self.old.world }
        requires started { phase_of self.old.stage ≡ Started }
        ensures takes { Takes (settled_after (paced_of (system_at self.old.world) n)) self.new.stage self.new.world }
        ensures started { phase_of self.new.stage ≡ Started }
        ensures rest { SameRest self.old.world.files.tree.nodes self.new.world.files.tree.nodes }
        ensures tree { self.new.world.files.tree ≡ self.old.world.files.tree }
        ensures images { self.new.world.procs.images ≡ self.old.world.procs.images }
        ensures items { Took (T.taken trace.old)
            (settled_after (paced_of (system_at self.old.world) n)).items (T.taken trace.new) }
        ensures frame { T.leads_to trace.old trace.new }
    {
        if set_pace(&mut self.world, n, trace) {
            self.settle(trace);
        }
    }
}
