//! The command `memory`: the core and the swap area that a run leaves.
ghost use Rattle.std.specs.Prelude.{◌≡◌, ℕ, List, true, false, ◌++◌, OnOk, OnErr, MatchResult};
ghost use Rattle.v6_port.specs.declared.host.OutPort.TheVariants as out_port;
ghost use Rattle.v6_port.specs.Outside.{Out, IsOpen, OnlyAt, Tells, same};
ghost use Rattle.v6_port.specs.Causes.{Calm, FaultAt};
ghost use Rattle.v6_port.specs.Calls.{is_expected};
ghost use Rattle.image_keep.specs.Holds.{MemoryHolds};
ghost use Rattle.unix_core.specs.Memory.{kept_in};
ghost use Rattle.abstract_unix.specs.Unix.{New, Started};
ghost use Rattle.abstract_unix.specs.Endings.{phase_after};
ghost use Rattle.abstract_unix.specs.Runs.{started, course};
ghost use Rattle.take_script.specs.Courses.{CanTake};
ghost use Rattle.take_script.specs.Events.{events_of};
ghost use Rattle.v6_run.specs.Words.{ToMemory};
ghost use Rattle.v6_run.specs.Ports.{final_of};
ghost use Rattle.v6_run.specs.Fronts.{HoldsFront};
ghost use Rattle.v6_run.specs.Outputs.{memory_writes};
ghost use Rattle.v6_run.specs.Booted.{EndsOrStops};

use crate::files::write_all;
use crate::ports::Ports;
use crate::run::RunError;
use script_text::Event;
use take_script::show_run;
use unix_core::{Ends, Kernel};
use v6_port::{Failed, Host, OutPort};

/// Runs the kernel over the events of a script, and tells how the run ends. What it shows is written nowhere.
fn play_unshown<H: Host>(kernel: &mut Kernel, events: &[Event], host: &mut H) -> Ends
    requires new { kernel.old.phase ≡ New }
    requires can { CanTake kernel.old.system events.now }
    ensures phase { kernel.new.phase ≡ phase_after result }
    ensures outside { H.outside host.new ≡ H.outside host.old }
    ensures ending { result ≡ (course (started kernel.old.system) (events_of events.now)).ending }
    ensures system { kernel.new.system ≡ (course (started kernel.old.system) (events_of events.now)).system }
{
    let mut unwanted = Ports::unwanted(host);
    show_run(kernel, events, &mut unwanted)
}

/// Writes two texts, one behind the other.
fn write_both<H: Host>(first: &[u8], second: &[u8], host: &mut H) -> Result<(), Failed>
    requires is_open { IsOpen (H.outside host.old) (Out out_port.Final) }
    ensures only { OnlyAt (same (Out out_port.Final)) (H.outside host.old) (H.outside host.new) }
    ensures is_open { IsOpen (H.outside host.new) (Out out_port.Final) }
    ensures whole { OnOk result (Tells (H.outside host.old) → (final_of (H.outside host.new)).bytes
        ≡ (final_of (H.outside host.old)).bytes ++ (first.now ++ second.now)) }
    ensures front { Tells (H.outside host.old) → HoldsFront (final_of (H.outside host.old)).bytes
        (first.now ++ second.now) (final_of (H.outside host.new)).bytes }
    ensures cause { MatchResult result (λ _. Calm (H.outside host.old) (H.outside host.new))
        (λ _. FaultAt (Out out_port.Final) true (H.outside host.old) (H.outside host.new)) }
{
    write_all(host, OutPort::Final, first)?;
    write_all(host, OutPort::Final, second)
}

/// Finishes the run, and writes the bytes of core and then those of the swap area.
fn write_memory<H: Host>(kernel: &mut Kernel, host: &mut H) -> Result<(), Failed>
    requires started { kernel.old.phase ≡ Started }
    requires is_open { IsOpen (H.outside host.old) (Out out_port.Final) }
    ensures only { OnlyAt (same (Out out_port.Final)) (H.outside host.old) (H.outside host.new) }
    ensures is_open { IsOpen (H.outside host.new) (Out out_port.Final) }
    ensures written { (core : List ℕ) × (swap : List ℕ) × MemoryHolds core swap (kept_in kernel.old.system)
        × OnOk result (Tells (H.outside host.old) → (final_of (H.outside host.new)).bytes
        ≡ (final_of (H.outside host.old)).bytes ++ (core ++ swap))
        × (Tells (H.outside host.old) → HoldsFront (final_of (H.outside host.old)).bytes (core ++ swap)
        (final_of (H.outside host.new)).bytes) }
    ensures cause { MatchResult result (λ _. Calm (H.outside host.old) (H.outside host.new))
        (λ _. FaultAt (Out out_port.Final) true (H.outside host.old) (H.outside host.new)) }
{
    kernel.finish();
    let core = kernel.core();
    let swap = kernel.swap();
    write_both(core, swap, host)
}

/// Writes what a run leaves that ends so: after a panic it leaves nothing.
fn leave_memory<H: Host>(kernel: &mut Kernel, ends: Ends, host: &mut H) -> Result<(), Failed>
    requires phase { kernel.old.phase ≡ phase_after ends }
    requires is_open { IsOpen (H.outside host.old) (Out out_port.Final) }
    ensures only { OnlyAt (same (Out out_port.Final)) (H.outside host.old) (H.outside host.new) }
    ensures is_open { IsOpen (H.outside host.new) (Out out_port.Final) }
    ensures written { (text : List ℕ) × memory_writes ends kernel.old.system text
        × OnOk result (Tells (H.outside host.old) → (final_of (H.outside host.new)).bytes
        ≡ (final_of (H.outside host.old)).bytes ++ text)
        × (Tells (H.outside host.old) → HoldsFront (final_of (H.outside host.old)).bytes text
        (final_of (H.outside host.new)).bytes) }
    ensures cause { MatchResult result (λ _. Calm (H.outside host.old) (H.outside host.new))
        (λ _. FaultAt (Out out_port.Final) true (H.outside host.old) (H.outside host.new)) }
{
    match ends {
        Ends::AtEnd => write_memory(kernel, host),
        Ends::Panic(_) => Ok(()),
    }
}

/// Opens the one file of `memory`.
fn open_final<H: Host>(name: &str, host: &mut H) -> Result<(), Failed>
    requires { ((H.outside host.old).port (Out out_port.Final)).is_open ≡ false }
    ensures only { OnlyAt (same (Out out_port.Final)) (H.outside host.old) (H.outside host.new) }
    ensures bytes { (final_of (H.outside host.new)).bytes ≡ (final_of (H.outside host.old)).bytes }
    ensures is_open { OnOk result (IsOpen (H.outside host.new) (Out out_port.Final)) }
    ensures closed { OnErr result ((final_of (H.outside host.new)).is_open ≡ false) }
    ensures expected { OnOk result (Tells (H.outside host.old)
        → is_expected ((H.outside host.old).fixed.expects out_port.Final) name.now ≡ true) }
    ensures cause { MatchResult result (λ _. Calm (H.outside host.old) (H.outside host.new))
        (λ _. FaultAt (Out out_port.Final) (is_expected ((H.outside host.old).fixed.expects out_port.Final) name.now)
        (H.outside host.old) (H.outside host.new)) }
{
    host.open_write(OutPort::Final, name)
}

/// Finishes it.
fn finish_final<H: Host>(host: &mut H) -> Result<(), Failed>
    requires { IsOpen (H.outside host.old) (Out out_port.Final) }
    ensures only { OnlyAt (same (Out out_port.Final)) (H.outside host.old) (H.outside host.new) }
    ensures bytes { (final_of (H.outside host.new)).bytes ≡ (final_of (H.outside host.old)).bytes }
    ensures closed { OnOk result ((final_of (H.outside host.new)).is_open ≡ false) }
    ensures still_open { OnErr result (IsOpen (H.outside host.new) (Out out_port.Final)) }
    ensures cause { MatchResult result (λ _. Calm (H.outside host.old) (H.outside host.new))
        (λ _. FaultAt (Out out_port.Final) true (H.outside host.old) (H.outside host.new)) }
{
    host.finish(OutPort::Final)
}

/// Runs the kernel with the one file of `memory` opened, and tells how the run ends. Where it comes to its end, its core and
/// its swap area are written; the file is finished then, and after a panic too.
pub(crate) fn run_to_memory<H: Host>(
    kernel: &mut Kernel,
    events: &[Event],
    name: &str,
    host: &mut H,
) -> Result<Ends, RunError>
    requires closed { ((H.outside host.old).port (Out out_port.Final)).is_open ≡ false }
    requires new { kernel.old.phase ≡ New }
    requires can { CanTake kernel.old.system events.now }
    ensures only { OnlyAt (same (Out out_port.Final)) (H.outside host.old) (H.outside host.new) }
    ensures outcome { EndsOrStops (ToMemory name.now) kernel.old events.now result (H.outside host.old) (H.outside host.new) }
{
    if open_final(name, host).is_err() {
        return Err(RunError::Write(OutPort::Final));
    }
    let ends = play_unshown(kernel, events, host);
    if leave_memory(kernel, ends, host).is_err() {
        return Err(RunError::Write(OutPort::Final));
    }
    if finish_final(host).is_err() {
        return Err(RunError::Write(OutPort::Final));
    }
    Ok(ends)
}
