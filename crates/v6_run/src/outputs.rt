//! The files that `run`, `run8` and `run2` write.
ghost use Rattle.std.specs.Prelude.{◌≡◌, ◌⊎◌, ℕ, List, [], ◌∷◌, map, true, false, is_some, ◌++◌, IsSome, OnOk, IfOk, IfErr, MatchResult, string_bytes};
ghost use Rattle.v6_port.specs.declared.host.OutPort.{OutPort};
ghost use Rattle.v6_port.specs.declared.host.OutPort.TheVariants as out_port;
ghost use Rattle.v6_port.specs.Outside.{Out, IsOpen, OnlyAt, Tells, same};
ghost use Rattle.v6_port.specs.Causes.{Calm, FaultAt};
ghost use Rattle.buf_cache.specs.Blocks.{IsDisk};
ghost use Rattle.fs_nodes.specs.Disks.{OfSecond};
ghost use Rattle.fs_nodes.specs.FileSystem.{SameAroundEach, AllStand};
ghost use Rattle.abstract_unix.specs.Unix.{Started, Stopped, Finished};
ghost use Rattle.image_keep.specs.Holds.{AreRangesApart, SwapHolds};
ghost use Rattle.unix_core.specs.Memory.{kept_in};
ghost use Rattle.abstract_unix.specs.Runs.{finished};
ghost use Rattle.v6_run.specs.Words.{ToDisk, disk_files_value, outputs_value};
ghost use Rattle.v6_run.specs.Ports.{final_of, second_of};
ghost use Rattle.v6_run.specs.Fronts.{HoldsFront};
ghost use Rattle.v6_run.specs.Final.{disk_text, second_text};
ghost use Rattle.v6_run.specs.Outputs.{is_other, is_left};
ghost use Rattle.v6_run.specs.Opened.{output, line_name, line_outputs, second_outputs, output_ports, has_port, AreApart};
ghost use Rattle.v6_run.specs.Opening.{output_value, IsListOf, AreThere, Opens, Leaves, Shuts};

use crate::files::write_all;
use crate::words::{DiskFiles, Outputs};
use fs_codec::{DISK_BLOCKS, SWAP_START};
use std::alloc::{AllocError, Global};
use unix_core::Kernel;
use v6_port::{Failed, Host, OutPort};

/// A file that a run writes.
#[derive(Drop)]
pub(crate) struct Output {
    pub(crate) port: OutPort,
    pub(crate) name: String,
}

/// A file of this name comes behind those that there are.
fn add_output(
    alloc: Global,
    outputs: &mut Vec<Output>,
    port: OutPort,
    name: &str,
) -> Result<(), AllocError>
    ensures { OnOk result (map output_value outputs.new.items
        ≡ map output_value outputs.old.items ++ output port name.now ∷ []) }
{
    let name = String::from_str(alloc, name)?;
    outputs.push(Output { port, name })?;
    Ok(())
}

/// The name of a line's file, by that of the console.
fn line_name(alloc: Global, term: &str, line: u8) -> Result<String, AllocError>
    ensures { IfOk result (λ name. string_bytes name ≡ line_name term.now line) }
{
    format!(in alloc; "{term}.{line}")
}

/// The files of the lines beside the console come behind those that there are.
fn add_lines(
    alloc: Global,
    outputs: &mut Vec<Output>,
    files: &DiskFiles<'_>,
) -> Result<(), AllocError>
    ensures { OnOk result (map output_value outputs.new.items
        ≡ map output_value outputs.old.items ++ line_outputs (disk_files_value files.now).lines files.now.term.now) }
{
    let lines = files.lines();
    let last = lines.count();
    'numbers: for line in 1..last {
        let name = line_name(alloc, files.term, line)?;
        add_output(alloc, outputs, OutPort::Line(line), name.as_str())?;
    }
    Ok(())
}

/// The file of the second disk comes behind those that there are, where there is a second disk.
fn add_second(
    alloc: Global,
    outputs: &mut Vec<Output>,
    files: &DiskFiles<'_>,
) -> Result<(), AllocError>
    ensures { OnOk result (map output_value outputs.new.items
        ≡ map output_value outputs.old.items ++ second_outputs (disk_files_value files.now).second) }
{
    match files.second() {
        Some(second) => add_output(alloc, outputs, OutPort::Second, second.final_disk),
        None => Ok(()),
    }
}

/// The files that `run`, `run8` or `run2` writes, in the order in which they are opened: that of each line, the log, the disk,
/// and the second disk.
fn disk_outputs(alloc: Global, files: &DiskFiles<'_>) -> Result<Vec<Output>, AllocError>
    ensures { IfOk result (λ outputs.
        map output_value outputs.items ≡ output_ports (ToDisk (disk_files_value files.now))) }
{
    let mut outputs = Vec::new(alloc);
    add_output(alloc, &mut outputs, OutPort::Term, files.term)?;
    add_lines(alloc, &mut outputs, files)?;
    add_output(alloc, &mut outputs, OutPort::Log, files.log)?;
    add_output(alloc, &mut outputs, OutPort::Final, files.final_disk)?;
    add_second(alloc, &mut outputs, files)?;
    Ok(outputs)
}

/// The files that a run opens by a list of them. `memory` has one file alone, and opens it by its name.
pub(crate) fn listed_outputs(
    alloc: Global,
    outputs: &Outputs<'_>,
) -> Result<Vec<Output>, AllocError>
    ensures { IfOk result (λ list. IsListOf (outputs_value outputs.now) (map output_value list.items)) }
{
    match outputs {
        Outputs::Disk(files) => disk_outputs(alloc, files),
        Outputs::Memory(_) => Ok(Vec::new(alloc)),
    }
}

/// Opens these files in their order, or says which could not be opened.
pub(crate) fn open_outputs<H: Host>(outputs: &[Output], host: &mut H) -> Result<(), OutPort>
    requires apart { AreApart (map output_value outputs.now) }
    requires there { AreThere (map output_value outputs.now) }
    requires closed { (p : OutPort) → has_port (map output_value outputs.now) (Out p) ≡ true
        → ((H.outside host.old).port (Out p)).is_open ≡ false }
    ensures { Opens (map output_value outputs.now) result (H.outside host.old) (H.outside host.new) }
{
    match outputs {
        [] => Ok(()),
        [first, rest @ ..] => {
            if host.open_write(first.port, first.name.as_str()).is_err() {
                return Err(first.port);
            }
            open_outputs(rest, host)
        }
    }
}

/// Writes all blocks of the kernel's disk before its swap area.
fn write_blocks<H: Host>(kernel: &Kernel, host: &mut H) -> Result<(), Failed>
    requires finished { kernel.now.phase ≡ Finished }
    requires is_open { IsOpen (H.outside host.old) (Out out_port.Final) }
    ensures only { OnlyAt (same (Out out_port.Final)) (H.outside host.old) (H.outside host.new) }
    ensures is_open { IsOpen (H.outside host.new) (Out out_port.Final) }
    ensures whole { OnOk result (Tells (H.outside host.old)
        → (final_of (H.outside host.new)).bytes ≡ (final_of (H.outside host.old)).bytes ++ disk_text kernel.now.stored.root) }
    ensures front { Tells (H.outside host.old)
        → HoldsFront (final_of (H.outside host.old)).bytes (disk_text kernel.now.stored.root)
        (final_of (H.outside host.new)).bytes }
    ensures cause { MatchResult result (λ _. Calm (H.outside host.old) (H.outside host.new))
        (λ _. FaultAt (Out out_port.Final) true (H.outside host.old) (H.outside host.new)) }
{
    'numbers: for n in 0..SWAP_START {
        write_all(host, OutPort::Final, &kernel.final_block(n))?;
    }
    Ok(())
}

/// Writes the disk of a kernel, whose swap area is these bytes.
fn write_disk<H: Host>(kernel: &Kernel, swap: &[u8], host: &mut H) -> Result<(), Failed>
    requires finished { kernel.now.phase ≡ Finished }
    requires is_open { IsOpen (H.outside host.old) (Out out_port.Final) }
    ensures only { OnlyAt (same (Out out_port.Final)) (H.outside host.old) (H.outside host.new) }
    ensures is_open { IsOpen (H.outside host.new) (Out out_port.Final) }
    ensures whole { OnOk result (Tells (H.outside host.old) → (final_of (H.outside host.new)).bytes
        ≡ (final_of (H.outside host.old)).bytes ++ (disk_text kernel.now.stored.root ++ swap.now)) }
    ensures front { Tells (H.outside host.old) → HoldsFront (final_of (H.outside host.old)).bytes
        (disk_text kernel.now.stored.root ++ swap.now) (final_of (H.outside host.new)).bytes }
    ensures cause { MatchResult result (λ _. Calm (H.outside host.old) (H.outside host.new))
        (λ _. FaultAt (Out out_port.Final) true (H.outside host.old) (H.outside host.new)) }
{
    write_blocks(kernel, host)?;
    write_all(host, OutPort::Final, swap)
}

/// Finishes the run, and writes the disk that it leaves.
fn leave_disk<H: Host>(kernel: &mut Kernel, host: &mut H) -> Result<(), Failed>
    requires ended { kernel.old.phase ≡ Started ⊎ kernel.old.phase ≡ Stopped }
    requires is_open { IsOpen (H.outside host.old) (Out out_port.Final) }
    ensures phase { kernel.new.phase ≡ Finished }
    ensures system { kernel.new.system ≡ finished kernel.old.system }
    ensures stands { AllStand kernel.new.stored kernel.new.system.unix.store }
    ensures rest { SameAroundEach kernel.old.blocks kernel.new.stored }
    ensures form { IsDisk kernel.new.stored.root }
    ensures second_form { OfSecond IsDisk kernel.new.stored.second }
    ensures only { OnlyAt (same (Out out_port.Final)) (H.outside host.old) (H.outside host.new) }
    ensures is_open { IsOpen (H.outside host.new) (Out out_port.Final) }
    ensures apart { AreRangesApart (kept_in kernel.new.system) }
    ensures written { (swap : List ℕ) × SwapHolds swap (kept_in kernel.new.system)
        × OnOk result (Tells (H.outside host.old) → (final_of (H.outside host.new)).bytes
        ≡ (final_of (H.outside host.old)).bytes ++ (disk_text kernel.new.stored.root ++ swap))
        × (Tells (H.outside host.old) → HoldsFront (final_of (H.outside host.old)).bytes
        (disk_text kernel.new.stored.root ++ swap) (final_of (H.outside host.new)).bytes) }
    ensures cause { MatchResult result (λ _. Calm (H.outside host.old) (H.outside host.new))
        (λ _. FaultAt (Out out_port.Final) true (H.outside host.old) (H.outside host.new)) }
{
    kernel.finish();
    let swap = kernel.swap();
    write_disk(kernel, swap, host)
}

/// Writes the second disk of a kernel whose run has been finished: all its blocks.
fn write_second<H: Host>(kernel: &Kernel, host: &mut H) -> Result<(), Failed>
    requires finished { kernel.now.phase ≡ Finished }
    requires second { IsSome kernel.now.system.unix.store.second }
    requires stored { IsSome kernel.now.stored.second }
    requires is_open { IsOpen (H.outside host.old) (Out out_port.Second) }
    ensures only { OnlyAt (same (Out out_port.Second)) (H.outside host.old) (H.outside host.new) }
    ensures is_open { IsOpen (H.outside host.new) (Out out_port.Second) }
    ensures whole { OnOk result (Tells (H.outside host.old) → (second_of (H.outside host.new)).bytes
        ≡ (second_of (H.outside host.old)).bytes ++ second_text kernel.now.stored.second) }
    ensures front { Tells (H.outside host.old) → HoldsFront (second_of (H.outside host.old)).bytes
        (second_text kernel.now.stored.second) (second_of (H.outside host.new)).bytes }
    ensures cause { MatchResult result (λ _. Calm (H.outside host.old) (H.outside host.new))
        (λ _. FaultAt (Out out_port.Second) true (H.outside host.old) (H.outside host.new)) }
{
    'numbers: for n in 0..DISK_BLOCKS {
        write_all(host, OutPort::Second, &kernel.second_block(n))?;
    }
    Ok(())
}

/// Writes the second disk, where there is one, or says that it could not be written.
fn leave_second<H: Host>(kernel: &Kernel, two: bool, host: &mut H) -> Result<(), OutPort>
    requires finished { kernel.now.phase ≡ Finished }
    requires second { is_some kernel.now.system.unix.store.second ≡ two }
    requires stored { is_some kernel.now.stored.second ≡ two }
    requires is_open { two ≡ true → IsOpen (H.outside host.old) (Out out_port.Second) }
    ensures only { OnlyAt (is_other two) (H.outside host.old) (H.outside host.new) }
    ensures is_open { two ≡ true → IsOpen (H.outside host.new) (Out out_port.Second) }
    ensures whole { OnOk result (Tells (H.outside host.old) → (second_of (H.outside host.new)).bytes
        ≡ (second_of (H.outside host.old)).bytes ++ second_text kernel.now.stored.second) }
    ensures front { Tells (H.outside host.old) → HoldsFront (second_of (H.outside host.old)).bytes
        (second_text kernel.now.stored.second) (second_of (H.outside host.new)).bytes }
    ensures cause { MatchResult result (λ _. Calm (H.outside host.old) (H.outside host.new))
        (λ port. FaultAt (Out port) true (H.outside host.old) (H.outside host.new)) }
    ensures named { IfErr result (λ port. is_other two (Out port) ≡ true) }
{
    if !two {
        return Ok(());
    }
    match write_second(kernel, host) {
        Ok(()) => Ok(()),
        Err(_) => Err(OutPort::Second),
    }
}

/// Finishes the run, and writes the disk that it leaves, and then the second one, where there are two; or says which could not
/// be written.
pub(crate) fn leave_disks<H: Host>(
    kernel: &mut Kernel,
    two: bool,
    host: &mut H,
) -> Result<(), OutPort>
    requires ended { kernel.old.phase ≡ Started ⊎ kernel.old.phase ≡ Stopped }
    requires second { is_some kernel.old.blocks.second ≡ two }
    requires is_open { (p : OutPort) → is_left two (Out p) ≡ true → IsOpen (H.outside host.old) (Out p) }
    ensures system { kernel.new.system ≡ finished kernel.old.system }
    ensures stands { AllStand kernel.new.stored kernel.new.system.unix.store }
    ensures rest { SameAroundEach kernel.old.blocks kernel.new.stored }
    ensures form { IsDisk kernel.new.stored.root }
    ensures second_form { OfSecond IsDisk kernel.new.stored.second }
    ensures apart { AreRangesApart (kept_in kernel.new.system) }
    ensures written { (swap : List ℕ) × SwapHolds swap (kept_in kernel.new.system)
        × Leaves two (disk_text kernel.new.stored.root ++ swap) (second_text kernel.new.stored.second) result
        (H.outside host.old) (H.outside host.new) }
{
    match leave_disk(kernel, host) {
        Ok(()) => leave_second(kernel, two, host),
        Err(_) => Err(OutPort::Final),
    }
}

/// Finishes them, in the order in which they were opened.
pub(crate) fn finish_outputs<H: Host>(outputs: &[Output], host: &mut H) -> Result<(), OutPort>
    requires apart { AreApart (map output_value outputs.now) }
    requires there { AreThere (map output_value outputs.now) }
    requires is_open { (p : OutPort) → has_port (map output_value outputs.now) (Out p) ≡ true
        → ((H.outside host.old).port (Out p)).is_open ≡ true }
    ensures { Shuts (map output_value outputs.now) result (H.outside host.old) (H.outside host.new) }
{
    match outputs {
        [] => Ok(()),
        [first, rest @ ..] => {
            if host.finish(first.port).is_err() {
                return Err(first.port);
            }
            finish_outputs(rest, host)
        }
    }
}
