//! The command `demo`: a run that needs no file.
ghost use Rattle.std.specs.Prelude.{◌≡◌, ◌*◌, ◌+◌, ◌≤◌, None, Ok, length, vec_len, IfOk, IfErr, IfSome, MatchResult, is_some, count_by, sum_by};
ghost use Rattle.v6_base.specs.Trace.{line_bytes};
ghost use Rattle.fs_codec.specs.Faults.{image_fault};
ghost use Rattle.fs_codec.specs.Disk.{head};
ghost use Rattle.buf_cache.specs.Blocks.{block_at, IsDisk};
ghost use Rattle.core_mem.specs.Bytes.{over};
ghost use Rattle.script_text.specs.Script.{script_of, slots_of, AreRates};
ghost use Rattle.make_image.specs.Image.{build_of};
ghost use Rattle.make_image.specs.Demo.{demo_text};
ghost use Rattle.abstract_unix.specs.Unix.{New, Started, Finished};
ghost use Rattle.abstract_unix.specs.Endings.{phase_after};
ghost use Rattle.abstract_unix.specs.Runs.{started, course, shown_by, finished};
ghost use Rattle.unix_core.specs.State.{KeepsRest};
ghost use Rattle.take_script.specs.Courses.{CanTake};
ghost use Rattle.take_script.specs.Events.{events_of};
ghost use Rattle.v6_run.specs.Words.{Demo};
ghost use Rattle.v6_run.specs.Final.{disk_text};
ghost use Rattle.v6_run.specs.Report.{summary_line};
ghost use Rattle.v6_run.specs.Errors.{end_of, run_status};
ghost use Rattle.v6_run.specs.Headline.{run_line};
ghost use Rattle.v6_run.specs.Demo.{EndsCourse, StopsCourse, RefusesDisk};
ghost use Rattle.v6_run.specs.Answers.{Answers};

use crate::image::ImageError;
use crate::ports::Ports;
use crate::run::{RunError, boot};
use crate::status::Status;
use crate::words::Lines;
use fs_check::{Tally, accept, tally};
use fs_codec::{BLOCK_SIZE, SWAP_START};
use make_image::{build, demo_script};
use script_text::{Event, Script, read};
use std::alloc::Global;
use take_script::show_run;
use unix_core::{BootFault, Ends, Kernel};
use v6_port::Host;

/// The clicks of core: the processes of the demo don't all fit.
pub(crate) const DEMO_CORE: u32 = 100;

/// What the demo of a number has come to.
#[derive(Clone, Copy)]
pub(crate) struct Summary {
    pub(crate) number: u32,
    /// How many bytes the terminal was shown.
    pub(crate) shown: u64,
    /// What the disk holds at the end.
    pub(crate) tally: Tally,
}

/// How a run has ended, and how many bytes the terminal was shown.
#[derive(Clone, Copy)]
struct Played {
    ends: Ends,
    shown: u64,
}

/// Runs the kernel over the events of a script. Nothing that it shows is written. The answer is nothing only where the terminal
/// was shown 2^64 - 1 bytes or more.
#[tactic(auto, using(crate::proofs::ShownLemmas::uncut_counted, crate::proofs::ShownLemmas::all_counted))]
fn play_counted<H: Host>(kernel: &mut Kernel, events: &[Event], host: &mut H) -> Option<Played>
    requires new { kernel.old.phase ≡ New }
    requires can { CanTake kernel.old.system events.now }
    ensures outside { H.outside host.new ≡ H.outside host.old }
    ensures phase { IfSome result (λ played. kernel.new.phase ≡ phase_after played.ends) }
    ensures ending { IfSome result (λ played.
        played.ends ≡ (course (started kernel.old.system) (events_of events.now)).ending) }
    ensures shown { IfSome result (λ played. played.shown
        ≡ length (line_bytes 0 (shown_by (course (started kernel.old.system) (events_of events.now))))) }
    ensures system { IfSome result (λ _.
        kernel.new.system ≡ (course (started kernel.old.system) (events_of events.now)).system) }
    ensures rest { KeepsRest kernel.old kernel.new }
{
    let mut ports = Ports::counting(host);
    let ends = show_run(kernel, events, &mut ports);
    let shown = ports.count()?;
    Some(Played { ends, shown })
}

/// Puts a block to its place in an image.
#[tactic(auto, unfolding(core_mem::specs::Bytes::over))]
fn put_block(image: &mut [u8], n: u16, block: &[u8; BLOCK_SIZE])
    requires { 512 * n + 512 ≤ length image.old }
    ensures bytes { image.new ≡ over image.old (512 * n) block.now }
    ensures length { length image.new ≡ length image.old }
{
    let at = BLOCK_SIZE * usize::from(n);
    image[at..at + BLOCK_SIZE].copy_from_slice(block);
}

/// Puts all blocks of the kernel's disk before its swap area in place of those of an image.
fn put_blocks(kernel: &Kernel, image: &mut [u8])
    requires finished { kernel.now.phase ≡ Finished }
    requires form { IsDisk kernel.now.stored.root }
    requires long { length image.old ≡ 512 * SWAP_START }
    ensures { image.new ≡ disk_text kernel.now.stored.root }
{
    'numbers: for n in 0..SWAP_START {
        put_block(image, n, &kernel.final_block(n));
    }
}

/// Finishes the run, and counts what is on the disk that it leaves, which is put in place of an image.
fn final_tally(kernel: &mut Kernel, image: &mut [u8]) -> Tally
    requires started { kernel.old.phase ≡ Started }
    requires root { (head (block_at kernel.old.blocks.root)).f_size ≤ SWAP_START }
    requires long { length image.old ≡ 512 * SWAP_START }
    ensures nodes { result.nodes ≡ count_by is_some (finished kernel.old.system).unix.store.root.nodes }
    ensures free { result.free ≡ (finished kernel.old.system).unix.store.root.room }
{
    kernel.finish();
    put_blocks(kernel, image);
    tally(image)
}

/// Takes the kernel through a script, and sums up. The image makes room for the disk that is left: no memory is taken once the
/// run has begun.
fn run_counted<H: Host>(
    kernel: &mut Kernel,
    number: u32,
    events: &[Event],
    image: &mut [u8],
    host: &mut H,
) -> Result<Summary, RunError>
    requires new { kernel.old.phase ≡ New }
    requires root { (head (block_at kernel.old.blocks.root)).f_size ≤ SWAP_START }
    requires long { length image.old ≡ 512 * SWAP_START }
    requires can { CanTake kernel.old.system events.now }
    ensures outside { H.outside host.new ≡ H.outside host.old }
    ensures outcome { MatchResult result
        (EndsCourse number (course (started kernel.old.system) (events_of events.now)))
        (StopsCourse (course (started kernel.old.system) (events_of events.now))) }
{
    let Some(played) = play_counted(kernel, events, host) else {
        return Err(RunError::NoMemory);
    };
    match played.ends {
        Ends::AtEnd => Ok(Summary {
            number,
            shown: played.shown,
            tally: final_tally(kernel, image),
        }),
        Ends::Panic(kind) => Err(RunError::Panic(kind)),
    }
}

/// Takes a kernel through a script, where one was made, and sums up. The kernel is moved
/// into the frame of this, and stays there.
#[inline(never)]
fn run_made<H: Host>(
    mut made: Result<Kernel, BootFault>,
    number: u32,
    events: &[Event],
    image: &mut [u8],
    host: &mut H,
) -> Result<Summary, RunError>
    requires new { IfOk made (λ kernel. kernel.phase ≡ New) }
    requires root { IfOk made (λ kernel. (head (block_at kernel.blocks.root)).f_size ≤ SWAP_START) }
    requires long { length image.old ≡ 512 * SWAP_START }
    requires can { IfOk made (λ kernel. CanTake kernel.system events.now) }
    ensures outside { H.outside host.new ≡ H.outside host.old }
    ensures outcome { MatchResult made
        (λ kernel. MatchResult result (EndsCourse number (course (started kernel.system) (events_of events.now)))
        (StopsCourse (course (started kernel.system) (events_of events.now))))
        (λ _. result ≡ Err RunError.NoMemory) }
{
    match &mut made {
        Ok(kernel) => run_counted(kernel, number, events, image, host),
        Err(_) => Err(RunError::NoMemory),
    }
}

/// The disk of a number.
fn demo_disk(alloc: Global, number: u32) -> Result<Vec<u8>, RunError>
    ensures bytes { IfOk result (λ image. image.items ≡ build_of number) }
    ensures len { IfOk result (λ image. vec_len image ≡ 512 * SWAP_START) }
    ensures good { IfOk result (λ image. image_fault image.items ≡ None) }
    ensures refused { IfErr result (RefusesDisk number) }
{
    let Ok(image) = build(alloc, number) else {
        return Err(RunError::NoMemory);
    };
    match accept(&image) {
        Ok(()) => Ok(image),
        Err(fault) => Err(RunError::Image(ImageError::Faulty(fault))),
    }
}

/// The events of the script of the demo, which has no fault.
fn demo_events(alloc: Global) -> Result<Script, RunError>
    ensures events { IfOk result (λ script. script_of demo_text ≡ Ok script.events.items) }
    ensures slots { IfOk result (λ script. sum_by slots_of script.events.items ≤ 200000000) }
    ensures rates { IfOk result (λ script. AreRates script.events.items) }
    ensures memory { IfErr result (λ error. run_status error ≡ Status.NoMemory) }
{
    let Ok(text) = demo_script(alloc) else {
        return Err(RunError::NoMemory);
    };
    match read(alloc, &text) {
        Ok(script) => Ok(script),
        Err(fault) => Err(RunError::Refused(fault)),
    }
}

/// The command `demo`: takes the disk of this number through the script of the demo. It stands out of line, since a kernel lies
/// in its frame.
#[inline(never)]
pub(crate) fn demo<H: Host>(alloc: Global, number: u32, host: &mut H) -> Result<Summary, RunError>
    ensures answers { Answers (Demo number) (end_of run_status result) (H.outside host.old) (H.outside host.new) }
    ensures line { IfOk result (λ summary. run_line number (script_of demo_text) ≡ summary_line summary) }
{
    let mut image = demo_disk(alloc, number)?;
    let script = demo_events(alloc)?;
    run_made(
        boot(alloc, &image, DEMO_CORE, Lines::One),
        number,
        &script.events,
        &mut image,
        host,
    )
}
