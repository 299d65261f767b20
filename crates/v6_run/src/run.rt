//! The commands `run`, `run8`, `run2` and `memory`: a run, and what it leaves.
ghost use Rattle.std.specs.Prelude.{◌≡◌, ℕ, ◌<◌, ◌≤◌, ◌^◌, length, map, true, is_some, None, Some, IsSomeAnd, IfOk, OnOk, IfErr, MatchResult};
ghost use Rattle.std.specs.Option.{option_map};
ghost use Rattle.v6_port.specs.Outside.{Out, IsOpen, OnlyAt, Tells};
ghost use Rattle.v6_port.specs.declared.host.OutPort.{OutPort};
ghost use Rattle.v6_port.specs.declared.host.OutPort.TheVariants.{Log};
ghost use Rattle.v6_port.specs.Causes.{Calm, FaultAt};
ghost use Rattle.v6_base.specs.Image.{AreBytes};
ghost use Rattle.fs_codec.specs.Faults.{image_fault};
ghost use Rattle.fs_codec.specs.Disk.{head};
ghost use Rattle.buf_cache.specs.Blocks.{block_at};
ghost use Rattle.abstract_unix.specs.Unix.{New};
ghost use Rattle.abstract_unix.specs.Endings.{phase_after};
ghost use Rattle.abstract_unix.specs.Runs.{boots, started, course, shown_by};
ghost use Rattle.unix_core.specs.Boots.{blocks_on, second_fault_of};
ghost use Rattle.unix_core.specs.State.{KeepsRest};
ghost use Rattle.take_script.specs.Courses.{CanTake};
ghost use Rattle.take_script.specs.Events.{events_of};
ghost use Rattle.v6_run.specs.Words.{Run, ToDisk, lines_value, disk_files_value, run_words_value, second_files, second_image, bytes_value};
ghost use Rattle.v6_run.specs.Opened.{line_port, second_inputs, output_ports, has_port};
ghost use Rattle.v6_run.specs.Opening.{output_value, IsListOf};
ghost use Rattle.v6_run.specs.Ports.{HasShown, HasShownFronts};
ghost use Rattle.v6_run.specs.Errors.{end_of, run_status};
ghost use Rattle.v6_run.specs.Outputs.{is_shown, is_disk_output, is_output, AreClosed, disk_writes, HasLawfulLogs, EndsRun, StopsRun};
ghost use Rattle.v6_run.specs.Answers.{Answers, HasSecond, HasFiles};
ghost use Rattle.v6_run.specs.Booted.{CanRun, EndsOrStops, EndsOrFails};
ghost use Rattle.v6_run.specs.Steps.{StopsSecond};

use crate::files::{ReadError, read_file};
use crate::image::{ImageError, SecondError, read_image, read_second};
use crate::memory::run_to_memory;
use crate::outputs::{Output, finish_outputs, leave_disks, listed_outputs, open_outputs};
use crate::ports::Ports;
use crate::words::{DiskFiles, Lines, Outputs, RunWords};
use fs_codec::SWAP_START;
use script_text::{Event, MAX_BYTES, ScriptFault, read};
use std::alloc::{AllocError, Global};
use take_script::show_run;
use unix_core::{Boot2Fault, BootFault, Ends, Kernel};
use v6_base::PanicKind;
use v6_port::{Host, InPort, OutPort};

/// The most bytes of a script that are read: one more than a script may have.
pub(crate) const SCRIPT_LIMIT: usize = MAX_BYTES + 1;

/// Why a run was not done to its end.
#[derive(Clone, Copy)]
pub(crate) enum RunError {
    /// There is no image.
    Image(ImageError),
    /// There is no second image.
    Second(SecondError),
    /// The script could not be read.
    Script(ReadError),
    /// The script has this first fault, or there was no memory for its events.
    Refused(ScriptFault),
    /// There was no memory for a kernel.
    NoMemory,
    /// A file could not be opened, written or finished.
    Write(OutPort),
    /// The run came to a panic.
    Panic(PanicKind),
}

impl From<ImageError> for RunError {
    ghost use Rattle.std.specs.Prelude.{◌≡◌};
    ghost use Rattle.v6_run.specs.declared.run.RunError.TheVariants.{Image};

    ghost from_gives = { λ error run_error. run_error ≡ Image error };

    fn from(error: ImageError) -> RunError {
        RunError::Image(error)
    }
}

impl From<SecondError> for RunError {
    ghost use Rattle.std.specs.Prelude.{◌≡◌};
    ghost use Rattle.v6_run.specs.declared.run.RunError.TheVariants.{Second};

    ghost from_gives = { λ error run_error. run_error ≡ Second error };

    fn from(error: SecondError) -> RunError {
        RunError::Second(error)
    }
}

impl From<ReadError> for RunError {
    ghost use Rattle.std.specs.Prelude.{◌≡◌};
    ghost use Rattle.v6_run.specs.declared.run.RunError.TheVariants.{Script};

    ghost from_gives = { λ error run_error. run_error ≡ Script error };

    fn from(error: ReadError) -> RunError {
        RunError::Script(error)
    }
}

impl From<AllocError> for RunError {
    ghost use Rattle.std.specs.Prelude.{◌≡◌};
    ghost use Rattle.v6_run.specs.declared.run.RunError.TheVariants.{NoMemory};

    ghost from_gives = { λ error run_error. run_error ≡ NoMemory };

    fn from(_error: AllocError) -> RunError {
        RunError::NoMemory
    }
}

impl From<ScriptFault> for RunError {
    ghost use Rattle.std.specs.Prelude.{◌≡◌};
    ghost use Rattle.v6_run.specs.declared.run.RunError.TheVariants.{Refused};

    ghost from_gives = { λ fault run_error. run_error ≡ Refused fault };

    fn from(fault: ScriptFault) -> RunError {
        RunError::Refused(fault)
    }
}

/// Each byte is below 256. Nothing is read.
fn see_bytes(bytes: &[u8])
    ensures { AreBytes bytes.now }
{
    let _ = bytes;
}

/// The kernel for an image, so many clicks of core and so many terminal lines. Each of its runs has a lawful log. The fault is
/// that of the kernel's own boot, here and in `boot2`: to change it would move the kernel, which would stand on the stack
/// once more.
pub(crate) fn boot(
    alloc: Global,
    image: &[u8],
    core: u32,
    lines: Lines,
) -> Result<Kernel, BootFault>
    requires least { 64 ≤ core }
    requires most { core ≤ 3968 }
    requires good { image_fault image.now ≡ None }
    ensures system { IfOk result (λ kernel. boots image.now None core (lines_value lines) ≡ Some kernel.system) }
    ensures blocks { IfOk result (λ kernel. kernel.blocks ≡ blocks_on image.now None) }
    ensures phase { IfOk result (λ kernel. kernel.phase ≡ New) }
    ensures lawful { IfOk result (λ kernel. HasLawfulLogs kernel.system) }
    ensures memory { IfErr result (λ fault. fault ≡ BootFault.NoMemory) }
{
    see_bytes(image);
    Kernel::boot_with(alloc, image, core as u16, lines.count())
}

/// The kernel for two images and so many clicks of core. Each of its runs has a lawful log.
fn boot2(alloc: Global, image: &[u8], second: &[u8], core: u32) -> Result<Kernel, Boot2Fault>
    requires least { 64 ≤ core }
    requires most { core ≤ 3968 }
    requires good { image_fault image.now ≡ None }
    requires second { second_fault_of image.now second.now ≡ None }
    ensures system { IfOk result (λ kernel. boots image.now (Some second.now) core 1 ≡ Some kernel.system) }
    ensures blocks { IfOk result (λ kernel. kernel.blocks ≡ blocks_on image.now (Some second.now)) }
    ensures phase { IfOk result (λ kernel. kernel.phase ≡ New) }
    ensures lawful { IfOk result (λ kernel. HasLawfulLogs kernel.system) }
    ensures memory { IfErr result (λ fault. fault ≡ Boot2Fault.NoMemory) }
{
    see_bytes(image);
    Kernel::boot2(alloc, image, second, core as u16)
}

/// Runs the kernel over the events of a script, with the files of so many lines and the log open, and tells how the run ends.
/// Where one of them can't be written, that is the answer: nothing more goes out, and the run stops soon.
fn play<H: Host>(
    kernel: &mut Kernel,
    events: &[Event],
    lines: Lines,
    host: &mut H,
) -> Result<Ends, OutPort>
    requires lines { (l : ℕ) → l < lines_value lines → IsOpen (H.outside host.old) (Out (line_port l)) }
    requires log { IsOpen (H.outside host.old) (Out Log) }
    requires new { kernel.old.phase ≡ New }
    requires can { CanTake kernel.old.system events.now }
    ensures phase { IfOk result (λ ends. kernel.new.phase ≡ phase_after ends) }
    ensures only { OnlyAt (is_shown (lines_value lines)) (H.outside host.old) (H.outside host.new) }
    ensures is_open { (p : OutPort)
        → ((H.outside host.new).port (Out p)).is_open ≡ ((H.outside host.old).port (Out p)).is_open }
    ensures ending { IfOk result (λ ends. ends ≡ (course (started kernel.old.system) (events_of events.now)).ending) }
    ensures shown { OnOk result (Tells (H.outside host.old)
        → HasShown (lines_value lines) (shown_by (course (started kernel.old.system) (events_of events.now)))
        (H.outside host.old) (H.outside host.new)) }
    ensures fronts { Tells (H.outside host.old)
        → HasShownFronts (lines_value lines) (shown_by (course (started kernel.old.system) (events_of events.now)))
        (H.outside host.old) (H.outside host.new) }
    ensures system { IfOk result (λ _.
        kernel.new.system ≡ (course (started kernel.old.system) (events_of events.now)).system) }
    ensures rest { KeepsRest kernel.old kernel.new }
    ensures cause { MatchResult result (λ _. Calm (H.outside host.old) (H.outside host.new))
        (λ port. FaultAt (Out port) true (H.outside host.old) (H.outside host.new)) }
    ensures named { IfErr result (λ port. is_shown (lines_value lines) (Out port) ≡ true) }
{
    let mut ports = Ports::new(host, lines.count());
    let ends = show_run(kernel, events, &mut ports);
    match ports.failed() {
        Some(port) => Err(port),
        None => Ok(ends),
    }
}

/// Runs the kernel with the files of `run`, `run8` or `run2` opened, and tells how the run ends: the disks that it leaves are
/// written, and then the files are finished.
fn run_opened<H: Host>(
    kernel: &mut Kernel,
    events: &[Event],
    files: &DiskFiles<'_>,
    outputs: &[Output],
    host: &mut H,
) -> Result<Ends, OutPort>
    requires outputs { map output_value outputs.now ≡ output_ports (ToDisk (disk_files_value files.now)) }
    requires closed { AreClosed (ToDisk (disk_files_value files.now)) (H.outside host.old) }
    requires root { (head (block_at kernel.old.blocks.root)).f_size ≤ SWAP_START }
    requires second { is_some kernel.old.blocks.second ≡ is_some (disk_files_value files.now).second }
    requires new { kernel.old.phase ≡ New }
    requires lawful { HasLawfulLogs kernel.old.system }
    requires can { CanTake kernel.old.system events.now }
    ensures only { OnlyAt (is_disk_output (disk_files_value files.now)) (H.outside host.old) (H.outside host.new) }
    ensures outcome { MatchResult result
        (λ ends. EndsRun (ToDisk (disk_files_value files.now))
        (disk_writes (disk_files_value files.now).lines (block_at kernel.old.blocks.root)
        (option_map block_at kernel.old.blocks.second)
        (course (started kernel.old.system) (events_of events.now)))
        (course (started kernel.old.system) (events_of events.now)) ends (H.outside host.old) (H.outside host.new))
        (λ port. StopsRun (ToDisk (disk_files_value files.now))
        (disk_writes (disk_files_value files.now).lines (block_at kernel.old.blocks.root)
        (option_map block_at kernel.old.blocks.second)
        (course (started kernel.old.system) (events_of events.now))) port
        (H.outside host.old) (H.outside host.new)) }
{
    open_outputs(outputs, host)?;
    let ends = play(kernel, events, files.lines(), host)?;
    leave_disks(kernel, files.has_second(), host)?;
    finish_outputs(outputs, host)?;
    Ok(ends)
}

/// Runs the kernel for the disks that it leaves.
fn run_to_disk<H: Host>(
    kernel: &mut Kernel,
    events: &[Event],
    files: &DiskFiles<'_>,
    outputs: &[Output],
    host: &mut H,
) -> Result<Ends, RunError>
    requires outputs { map output_value outputs.now ≡ output_ports (ToDisk (disk_files_value files.now)) }
    requires closed { AreClosed (ToDisk (disk_files_value files.now)) (H.outside host.old) }
    requires root { (head (block_at kernel.old.blocks.root)).f_size ≤ SWAP_START }
    requires second { is_some kernel.old.blocks.second ≡ is_some (disk_files_value files.now).second }
    requires new { kernel.old.phase ≡ New }
    requires lawful { HasLawfulLogs kernel.old.system }
    requires can { CanTake kernel.old.system events.now }
    ensures only { OnlyAt (is_disk_output (disk_files_value files.now)) (H.outside host.old) (H.outside host.new) }
    ensures outcome { EndsOrStops (ToDisk (disk_files_value files.now)) kernel.old events.now result
        (H.outside host.old) (H.outside host.new) }
{
    match run_opened(kernel, events, files, outputs, host) {
        Ok(ends) => Ok(ends),
        Err(port) => Err(RunError::Write(port)),
    }
}

/// Runs the kernel with the files opened that the words name, and tells how the run ends.
fn run_with_outputs<H: Host>(
    kernel: &mut Kernel,
    events: &[Event],
    words: &RunWords<'_>,
    outputs: &[Output],
    host: &mut H,
) -> Result<Ends, RunError>
    requires outputs { IsListOf (run_words_value words.now).outputs (map output_value outputs.now) }
    requires closed { AreClosed (run_words_value words.now).outputs (H.outside host.old) }
    requires root { (head (block_at kernel.old.blocks.root)).f_size ≤ SWAP_START }
    requires second { is_some kernel.old.blocks.second ≡ is_some (second_files (run_words_value words.now).outputs) }
    requires new { kernel.old.phase ≡ New }
    requires lawful { HasLawfulLogs kernel.old.system }
    requires can { CanTake kernel.old.system events.now }
    ensures only { OnlyAt (is_output (run_words_value words.now).outputs) (H.outside host.old) (H.outside host.new) }
    ensures outcome { EndsOrStops (run_words_value words.now).outputs kernel.old events.now result
        (H.outside host.old) (H.outside host.new) }
{
    match &words.outputs {
        Outputs::Disk(files) => run_to_disk(kernel, events, files, outputs, host),
        Outputs::Memory(name) => run_to_memory(kernel, events, name, host),
    }
}

/// The files that are read before a run.
#[derive(Drop)]
struct Files {
    image: Vec<u8>,
    /// The second image, where the words name one.
    second: Option<Vec<u8>>,
    script: Vec<u8>,
}

/// Reads the second image, where the words name one.
fn read_other<H: Host>(
    alloc: Global,
    words: &RunWords<'_>,
    image: &[u8],
    host: &mut H,
) -> Result<Option<Vec<u8>>, SecondError>
    requires { image_fault image.now ≡ None }
    ensures only { OnlyAt (has_port (second_inputs (second_image (run_words_value words.now).outputs)))
        (H.outside host.old) (H.outside host.new) }
    ensures second { IfOk result (λ second.
        HasSecond image.now (second_image (run_words_value words.now).outputs) (bytes_value second) (H.outside host.old)) }
    ensures cause { MatchResult result (λ _. Calm (H.outside host.old) (H.outside host.new))
        (λ error. IsSomeAnd (second_image (run_words_value words.now).outputs) (λ name.
        StopsSecond image.now name error (H.outside host.old) (H.outside host.new))) }
{
    match words.outputs.second() {
        Some(second) => match read_second(alloc, image, second.image, host) {
            Ok(bytes) => Ok(Some(bytes)),
            Err(error) => Err(error),
        },
        None => Ok(None),
    }
}

fn read_files<H: Host>(alloc: Global, words: &RunWords<'_>, host: &mut H) -> Result<Files, RunError>
    ensures files { IfOk result (λ files.
        HasFiles (run_words_value words.now) files.image.items (bytes_value files.second) files.script.items
        (H.outside host.old) (H.outside host.new)) }
    ensures short { IfOk result (λ files. length files.script.items < 2 ^ 32) }
    ensures refused { IfErr result (λ error.
        Answers (Run (run_words_value words.now)) (run_status error) (H.outside host.old) (H.outside host.new)) }
{
    let image = read_image(alloc, words.image, host)?;
    let second = read_other(alloc, words, &image, host)?;
    let script = read_file(alloc, host, InPort::Script, words.script, SCRIPT_LIMIT)?;
    Ok(Files {
        image,
        second,
        script,
    })
}

/// Runs a kernel, where one was made, with the files opened that the words name, and tells how the run ends. The kernel is
/// moved into the frame of this, and stays there.
#[inline(never)]
fn run_made<H: Host, E: Drop>(
    mut made: Result<Kernel, E>,
    events: &[Event],
    words: &RunWords<'_>,
    outputs: &[Output],
    host: &mut H,
) -> Result<Ends, RunError>
    requires outputs { IsListOf (run_words_value words.now).outputs (map output_value outputs.now) }
    requires root { IfOk made (λ kernel. (head (block_at kernel.blocks.root)).f_size ≤ SWAP_START) }
    requires second { IfOk made (λ kernel.
        is_some kernel.blocks.second ≡ is_some (second_files (run_words_value words.now).outputs)) }
    requires new { IfOk made (λ kernel. kernel.phase ≡ New) }
    requires lawful { IfOk made (λ kernel. HasLawfulLogs kernel.system) }
    requires can { IfOk made (λ kernel. CanTake kernel.system events.now) }
    requires closed { AreClosed (run_words_value words.now).outputs (H.outside host.old) }
    ensures only { OnlyAt (is_output (run_words_value words.now).outputs) (H.outside host.old) (H.outside host.new) }
    ensures outcome { MatchResult made
        (λ kernel. EndsOrStops (run_words_value words.now).outputs kernel events.now result
        (H.outside host.old) (H.outside host.new))
        (λ _. (result ≡ Err RunError.NoMemory) × (H.outside host.new ≡ H.outside host.old)) }
{
    match &mut made {
        Ok(kernel) => run_with_outputs(kernel, events, words, outputs, host),
        Err(_) => Err(RunError::NoMemory),
    }
}

/// Runs the kernel of one image with the files opened that the words name, and tells how the run ends. The names of the files
/// are listed before the kernel is made: from then on no memory is taken. It stands out of line, as the next does: there is one
/// place for a kernel in its frame, and nothing else that is large.
#[inline(never)]
fn run_on_one<H: Host>(
    alloc: Global,
    image: &[u8],
    events: &[Event],
    words: &RunWords<'_>,
    host: &mut H,
) -> Result<Ends, RunError>
    requires can { CanRun image.now None (run_words_value words.now) events.now }
    requires closed { AreClosed (run_words_value words.now).outputs (H.outside host.old) }
    ensures only { OnlyAt (is_output (run_words_value words.now).outputs) (H.outside host.old) (H.outside host.new) }
    ensures outcome { EndsOrFails image.now None (run_words_value words.now) events.now result
        (H.outside host.old) (H.outside host.new) }
{
    let outputs = listed_outputs(alloc, &words.outputs)?;
    let lines = words.outputs.lines();
    run_made(
        boot(alloc, image, words.core, lines),
        events,
        words,
        &outputs,
        host,
    )
}

/// The same with the kernel of two images.
#[inline(never)]
fn run_on_two<H: Host>(
    alloc: Global,
    image: &[u8],
    second: &[u8],
    events: &[Event],
    words: &RunWords<'_>,
    host: &mut H,
) -> Result<Ends, RunError>
    requires can { CanRun image.now (Some second.now) (run_words_value words.now) events.now }
    requires closed { AreClosed (run_words_value words.now).outputs (H.outside host.old) }
    ensures only { OnlyAt (is_output (run_words_value words.now).outputs) (H.outside host.old) (H.outside host.new) }
    ensures outcome { EndsOrFails image.now (Some second.now) (run_words_value words.now) events.now result
        (H.outside host.old) (H.outside host.new) }
{
    let outputs = listed_outputs(alloc, &words.outputs)?;
    run_made(
        boot2(alloc, image, second, words.core),
        events,
        words,
        &outputs,
        host,
    )
}

/// Runs the kernel of the images that were read.
fn run_booted<H: Host>(
    alloc: Global,
    files: &Files,
    events: &[Event],
    words: &RunWords<'_>,
    host: &mut H,
) -> Result<Ends, RunError>
    requires can { CanRun files.now.image.items (bytes_value files.now.second) (run_words_value words.now) events.now }
    requires closed { AreClosed (run_words_value words.now).outputs (H.outside host.old) }
    ensures only { OnlyAt (is_output (run_words_value words.now).outputs) (H.outside host.old) (H.outside host.new) }
    ensures outcome { EndsOrFails files.now.image.items (bytes_value files.now.second) (run_words_value words.now) events.now
        result (H.outside host.old) (H.outside host.new) }
{
    match &files.second {
        Some(second) => run_on_two(alloc, &files.image, second, events, words, host),
        None => run_on_one(alloc, &files.image, events, words, host),
    }
}

/// The commands `run`, `run8`, `run2` and `memory` with good words.
#[inline(never)]
pub(crate) fn run<H: Host>(
    alloc: Global,
    words: &RunWords<'_>,
    host: &mut H,
) -> Result<(), RunError>
    requires least { 64 ≤ words.now.core }
    requires most { words.now.core ≤ 3968 }
    requires closed { AreClosed (run_words_value words.now).outputs (H.outside host.old) }
    ensures { Answers (Run (run_words_value words.now)) (end_of run_status result) (H.outside host.old) (H.outside host.new) }
{
    let files = read_files(alloc, words, host)?;
    let script = read(alloc, &files.script)?;
    match run_booted(alloc, &files, &script.events, words, host) {
        Ok(Ends::AtEnd) => Ok(()),
        Ok(Ends::Panic(kind)) => Err(RunError::Panic(kind)),
        Err(error) => Err(error),
    }
}
