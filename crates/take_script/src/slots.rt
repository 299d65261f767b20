//! A run over the events of a script.
ghost use Rattle.std.specs.Prelude.{◌≡◌, ◌<◌, ◌≤◌, ◌+◌, ◌-◌, ◌==◌, [], ◌∷◌, false, Ok, Err, if◌then◌else◌, replicate, flat_map};
ghost use Rattle.std.specs.List.{range_with_len};
ghost use Rattle.abstract_unix.specs.Unix.{New, Started};
ghost use Rattle.abstract_unix.specs.declared.ends.Ends.TheVariants.{AtEnd};
ghost use Rattle.abstract_unix.specs.Endings.{phase_after, last_line};
ghost use Rattle.abstract_unix.specs.Runs.{Slot, begun, started, course, shown_by};
ghost use Rattle.take_script.specs.Events.{stretch, slot_numbered, happens, clock_after, events_of};
ghost use Rattle.script_text.specs.Script.{slots_of};
ghost use Rattle.take_script.specs.Clocks.{clock_value, TicksAlike};
ghost use Rattle.v6_base.specs.Trace.{Took};
ghost use Rattle.unix_core.specs.State.{KeepsRest};
ghost use Rattle.take_script.specs.Courses.{CanTake, HasRun, HasRunUncut};

use crate::clock::{Clock, since_after};
use script_text::Event;
use unix_core::{Ends, Kernel, Turned};
use v6_base::{Entry, PanicKind, Trace};

/// After how many slots of a line `run N` a run asks whether its trace is cut.
const SLOTS_AT_ONCE: u32 = 1_000_000;

/// A trace that tells whether it is cut.
pub trait TellsCut: Trace {
    fn is_cut(&self) -> bool
        ensures { result ≡ (Self.taken self.now).cut };
}

/// Takes so many slots, or those up to the first that ends the run, and tells how. It stands by itself, so that its loop has
/// all registers.
#[inline(never)]
fn run_slots<T: Trace>(kernel: &mut Kernel, count: u32, trace: &mut T) -> Ends
    requires started { kernel.old.phase ≡ Started }
    requires fresh { kernel.old.system.unix.timing.passed + count ≤ 3000000001 }
    ensures phase { kernel.new.phase ≡ phase_after result }
    ensures run { HasRun (begun kernel.old.system) (replicate count Slot) result kernel.new.system
        (T.taken trace.old) (T.taken trace.new) }
    ensures passed { result ≡ AtEnd → kernel.new.system.unix.timing.passed ≡ kernel.old.system.unix.timing.passed + count }
    ensures rest { KeepsRest kernel.old kernel.new }
    ensures frame { T.leads_to trace.old trace.new }
{
    'slots: for _ in 0..count {
        match kernel.turn(trace) {
            Turned::Ran | Turned::Idle => {}
            Turned::Panic(kind) => return Ends::Panic(kind),
        }
    }
    Ends::AtEnd
}

/// How a run ends after a tick.
fn ends_by(ticked: Result<(), PanicKind>) -> Ends
    ensures goes { ticked ≡ Ok tt → result ≡ AtEnd }
    ensures stops { (kind : PanicKind) → ticked ≡ Err kind → result ≡ Ends.Panic kind }
{
    match ticked {
        Ok(()) => Ends::AtEnd,
        Err(kind) => Ends::Panic(kind),
    }
}

/// Takes so many slots, and then a tick, where that is called for; or what comes up to the first that ends the run.
fn run_stretch<T: Trace>(kernel: &mut Kernel, count: u32, ticks: bool, trace: &mut T) -> Ends
    requires started { kernel.old.phase ≡ Started }
    requires fresh { kernel.old.system.unix.timing.passed + count ≤ 3000000001 }
    ensures phase { kernel.new.phase ≡ phase_after result }
    ensures run { HasRun (begun kernel.old.system) (stretch count ticks) result kernel.new.system
        (T.taken trace.old) (T.taken trace.new) }
    ensures passed { result ≡ AtEnd → kernel.new.system.unix.timing.passed ≡ kernel.old.system.unix.timing.passed + count }
    ensures rest { KeepsRest kernel.old kernel.new }
    ensures frame { T.leads_to trace.old trace.new }
{
    match run_slots(kernel, count, trace) {
        Ends::AtEnd => {}
        ends => return ends,
    }
    if ticks {
        return ends_by(kernel.tick(trace));
    }
    Ends::AtEnd
}

/// How many slots the next stretch has: those up to the next tick, or all that are left.
fn stretch_len(left: u32, upto: u32) -> u32
    ensures few { result ≤ left }
    ensures less { result ≤ upto }
    ensures some { 0 < left → 0 < upto → 0 < result }
{
    if left < upto { left } else { upto }
}

/// How many slots there are up to the next tick, when so many of them have been taken.
fn upto_next(every: u32, upto: u32, taken: u32) -> u32
    requires { taken ≤ upto }
    ensures { result ≡ (if taken == upto then every else upto - taken) }
{
    if taken == upto { every } else { upto - taken }
}

/// Takes so many slots, with a tick after every so manyth, where some have been taken since the last: the slots up to the next
/// tick by the one loop over turns, then that tick. A loop of its own would be a second place where a turn is taken, and then
/// it would stand out of line in both.
#[inline(never)]
fn run_clocked<T: Trace>(
    kernel: &mut Kernel,
    every: u32,
    since: u32,
    count: u32,
    trace: &mut T,
) -> Ends
    requires within { since < every }
    requires started { kernel.old.phase ≡ Started }
    requires fresh { kernel.old.system.unix.timing.passed + count ≤ 3000000001 }
    ensures phase { kernel.new.phase ≡ phase_after result }
    ensures run { HasRun (begun kernel.old.system) (flat_map (slot_numbered every) (range_with_len (since + 1) count))
        result kernel.new.system (T.taken trace.old) (T.taken trace.new) }
    ensures passed { result ≡ AtEnd → kernel.new.system.unix.timing.passed ≡ kernel.old.system.unix.timing.passed + count }
    ensures rest { KeepsRest kernel.old kernel.new }
    ensures frame { T.leads_to trace.old trace.new }
{
    let mut left = count;
    let mut upto = every - since;
    'ticks: while left > 0 {
        let slots = stretch_len(left, upto);
        match run_stretch(kernel, slots, slots == upto, trace) {
            Ends::AtEnd => {}
            ends => return ends,
        }
        upto = upto_next(every, upto, slots);
        left -= slots;
    }
    Ends::AtEnd
}

/// Takes the slots of a line `run N`, with the ticks of the clock.
fn run_line<T: Trace>(kernel: &mut Kernel, clock: &mut Clock, count: u32, trace: &mut T) -> Ends
    requires started { kernel.old.phase ≡ Started }
    requires fresh { kernel.old.system.unix.timing.passed + count ≤ 3000000001 }
    ensures phase { kernel.new.phase ≡ phase_after result }
    ensures run { HasRun (begun kernel.old.system) (happens (clock_value clock.old) (Event.Run count)) result kernel.new.system
        (T.taken trace.old) (T.taken trace.new) }
    ensures passed { result ≡ AtEnd → kernel.new.system.unix.timing.passed ≡ kernel.old.system.unix.timing.passed + count }
    ensures rest { KeepsRest kernel.old kernel.new }
    ensures frame { T.leads_to trace.old trace.new }
    ensures clock { TicksAlike (clock_after (clock_value clock.old) (Event.Run count)) (clock_value clock.new) }
{
    let (every, since, line) = (clock.every, clock.since, clock.line);
    if every == 0 {
        return run_slots(kernel, count, trace);
    }
    *clock = Clock {
        every,
        since: since_after(every, since, count),
        line,
    };
    run_clocked(kernel, every, since, count, trace)
}

/// Takes the slots of a line `run N`, so many at once, up to those that end the run or in which the trace is cut. After the
/// latter nothing is known of how the run ends.
fn run_pieces<T: TellsCut>(
    kernel: &mut Kernel,
    clock: &mut Clock,
    count: u32,
    trace: &mut T,
) -> Ends
    requires started { kernel.old.phase ≡ Started }
    requires fresh { kernel.old.system.unix.timing.passed + count ≤ 3000000001 }
    ensures phase { kernel.new.phase ≡ phase_after result }
    ensures run { HasRunUncut (begun kernel.old.system) (happens (clock_value clock.old) (Event.Run count)) result
        kernel.new.system (T.taken trace.old) (T.taken trace.new) }
    ensures passed { result ≡ AtEnd → (T.taken trace.new).cut ≡ false
        → kernel.new.system.unix.timing.passed ≡ kernel.old.system.unix.timing.passed + count }
    ensures rest { KeepsRest kernel.old kernel.new }
    ensures frame { T.leads_to trace.old trace.new }
    ensures clock { result ≡ AtEnd → (T.taken trace.new).cut ≡ false
        → TicksAlike (clock_after (clock_value clock.old) (Event.Run count)) (clock_value clock.new) }
{
    let mut left = count;
    'pieces: while left > 0 {
        let slots = stretch_len(left, SLOTS_AT_ONCE);
        match run_line(kernel, clock, slots, trace) {
            Ends::AtEnd => {}
            ends => return ends,
        }
        if trace.is_cut() {
            return Ends::AtEnd;
        }
        left -= slots;
    }
    Ends::AtEnd
}

/// Takes one event of a script, or of the slots of a line `run N` those up to the cut of the trace.
fn take_event<T: TellsCut>(
    kernel: &mut Kernel,
    clock: &mut Clock,
    event: Event,
    trace: &mut T,
) -> Ends
    requires started { kernel.old.phase ≡ Started }
    requires can { CanTake kernel.old.system (event ∷ []) }
    ensures phase { kernel.new.phase ≡ phase_after result }
    ensures run { HasRunUncut (begun kernel.old.system) (happens (clock_value clock.old) event) result kernel.new.system
        (T.taken trace.old) (T.taken trace.new) }
    ensures passed { result ≡ AtEnd → (T.taken trace.new).cut ≡ false
        → kernel.new.system.unix.timing.passed ≡ kernel.old.system.unix.timing.passed + slots_of event }
    ensures rest { KeepsRest kernel.old kernel.new }
    ensures frame { T.leads_to trace.old trace.new }
    ensures clock { result ≡ AtEnd → (T.taken trace.new).cut ≡ false
        → TicksAlike (clock_after (clock_value clock.old) event) (clock_value clock.new) }
{
    match event {
        Event::Clock(every) => {
            *clock = Clock {
                every,
                since: 0,
                line: clock.line,
            };
            Ends::AtEnd
        }
        Event::Run(count) => run_pieces(kernel, clock, count, trace),
        Event::Tick => ends_by(kernel.tick(trace)),
        Event::Byte(byte) => {
            kernel.typed_on(clock.line, byte, trace);
            Ends::AtEnd
        }
        Event::Switch(word) => {
            kernel.set_switches(word);
            Ends::AtEnd
        }
        Event::Disk(count) => {
            kernel.set_disk(count);
            Ends::AtEnd
        }
        Event::Pace(count) => {
            kernel.set_pace(count, trace);
            Ends::AtEnd
        }
        Event::Line(l) => {
            clock.line = l;
            Ends::AtEnd
        }
        Event::Hangup(l) => {
            kernel.hangup(l, trace);
            Ends::AtEnd
        }
    }
}

/// Takes the events of a script in turn, up to the first that ends the run or in which the trace is cut. After the latter
/// nothing is known of how the run ends.
fn run_events<T: TellsCut>(kernel: &mut Kernel, events: &[Event], trace: &mut T) -> Ends
    requires started { kernel.old.phase ≡ Started }
    requires can { CanTake kernel.old.system events.now }
    ensures phase { kernel.new.phase ≡ phase_after result }
    ensures run { HasRunUncut (begun kernel.old.system) (events_of events.now) result kernel.new.system
        (T.taken trace.old) (T.taken trace.new) }
    ensures rest { KeepsRest kernel.old kernel.new }
    ensures frame { T.leads_to trace.old trace.new }
{
    let mut clock = Clock {
        every: 0,
        since: 0,
        line: 0,
    };
    'events: for event in events {
        match take_event(kernel, &mut clock, *event, trace) {
            Ends::AtEnd => {}
            ends => return ends,
        }
        if trace.is_cut() {
            return Ends::AtEnd;
        }
    }
    Ends::AtEnd
}

/// Starts the kernel, and takes the events of a script in turn.
fn run_script<T: TellsCut>(kernel: &mut Kernel, events: &[Event], trace: &mut T) -> Ends
    requires new { kernel.old.phase ≡ New }
    requires can { CanTake kernel.old.system events.now }
    ensures phase { kernel.new.phase ≡ phase_after result }
    ensures run { HasRunUncut (started kernel.old.system) (events_of events.now) result kernel.new.system
        (T.taken trace.old) (T.taken trace.new) }
    ensures rest { KeepsRest kernel.old kernel.new }
    ensures frame { T.leads_to trace.old trace.new }
{
    kernel.start(trace);
    run_events(kernel, events, trace)
}

/// The last line of the log of a run that ends so.
#[tactic(auto, using(v6_base::proofs::Took::took_nothing))]
fn last_line<T: Trace>(ends: Ends, trace: &mut T)
    ensures shown { Took (T.taken trace.old) (last_line ends) (T.taken trace.new) }
    ensures frame { T.leads_to trace.old trace.new }
{
    match ends {
        Ends::AtEnd => trace.entry(Entry::End),
        Ends::Panic(_) => {}
    }
}

/// Takes a whole run, with the last line of its log; or as much of it as comes to a cut of the trace. Then nothing is known of
/// how it ends.
pub fn show_run<T: TellsCut>(kernel: &mut Kernel, events: &[Event], trace: &mut T) -> Ends
    requires new { kernel.old.phase ≡ New }
    requires can { CanTake kernel.old.system events.now }
    ensures phase { kernel.new.phase ≡ phase_after result }
    ensures ends { (T.taken trace.new).cut ≡ false
        → result ≡ (course (started kernel.old.system) (events_of events.now)).ending }
    ensures system { (T.taken trace.new).cut ≡ false
        → kernel.new.system ≡ (course (started kernel.old.system) (events_of events.now)).system }
    ensures shown { Took (T.taken trace.old) (shown_by (course (started kernel.old.system) (events_of events.now)))
        (T.taken trace.new) }
    ensures rest { KeepsRest kernel.old kernel.new }
    ensures frame { T.leads_to trace.old trace.new }
{
    let ends = run_script(kernel, events, trace);
    last_line(ends, trace);
    ends
}
