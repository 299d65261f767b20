//! The report on how a command ended.
ghost use Rattle.std.specs.Prelude.{◌≡◌, ◌<◌, ◌-◌, ◌^◌, ◌++◌, true, OnOk, MatchResult};
ghost use Rattle.v6_port.specs.Outside.{Out, OnlyAt, Tells, same};
ghost use Rattle.v6_port.specs.declared.host.OutPort.TheVariants.{Report};
ghost use Rattle.v6_port.specs.Causes.{Calm, FaultAt};
ghost use Rattle.v6_run.specs.Fronts.{HoldsFront};
ghost use Rattle.v6_run.specs.Report.{report, status_line, panic_line, script_line, fault_line, second_fault_line, second_line, ok_line, demo_line, lawful_line, found_line};
ghost use Rattle.v6_run.specs.Answers.{Reports};

use crate::demo::Summary;
use crate::error::CommandError;
use crate::files::write_all;
use crate::line::{Line, long_numbered, numbered, plain, push_long, push_number, twice_numbered};
use crate::status::Status;
use fs_check::{ImageFault, Tally};
use script_text::ScriptFault;
use unix_core::SecondFault;
use v6_base::PanicKind;
use v6_port::{Failed, Host, InPort, OutPort};

/// What a command that was done has found.
#[derive(Clone, Copy)]
pub(crate) enum Found {
    /// What `check` has found on a disk.
    Disk(Tally),
    /// What `demo` has come to.
    Run(Summary),
    /// How many lines the lawful log has that `audit` has read.
    Log(u64),
}

const USAGE: &str =
    "usage: v6 run IMAGE CORE SCRIPT TERM LOG FINAL, run8 IMAGE CORE SCRIPT TERM LOG FINAL, \
    run2 IMAGE CORE SCRIPT TERM LOG FINAL IMAGE2 FINAL2, memory IMAGE CORE SCRIPT FINAL, \
    check IMAGE, make N FINAL, demo N, audit LOG";

fn script_line(fault: ScriptFault) -> Line
    ensures { result.bytes ≡ script_line fault }
{
    match fault {
        ScriptFault::TooLong => plain("script: too long"),
        ScriptFault::BadLine(line) => numbered("script: line ", line, ""),
        ScriptFault::TooManySlots(line) => numbered("script: too many slots at line ", line, ""),
        ScriptFault::NoMemory => plain("no memory"),
    }
}

fn fault_line(fault: ImageFault) -> Line
    ensures { result.bytes ≡ fault_line fault }
{
    match fault {
        ImageFault::TooLong => plain("image: too long"),
        ImageFault::BadSuper => plain("image: bad super-block"),
        ImageFault::NoSwap(blocks) => {
            numbered("image: file system of ", blocks, " blocks leaves no swap")
        }
        ImageFault::FreeCount(block) => numbered("image: free count in block ", block, ""),
        ImageFault::FreeOutside(block) => numbered("image: free block ", block, " outside"),
        ImageFault::NodeOutside(inode, block) => {
            twice_numbered("image: inode ", inode, " has block ", block, " outside")
        }
        ImageFault::BlockTwice(block) => numbered("image: block ", block, " twice"),
        ImageFault::NoRoot => plain("image: no root"),
    }
}

/// The line of what is wrong with a second image. It leaves no room for a swap area, and needs none.
fn second_fault_line(fault: ImageFault) -> Line
    ensures { result.bytes ≡ second_fault_line fault }
{
    match fault {
        ImageFault::TooLong => plain("second image: too long"),
        ImageFault::BadSuper => plain("second image: bad super-block"),
        ImageFault::NoSwap(blocks) => {
            numbered(
                "second image: file system of ",
                blocks,
                " blocks is too long",
            )
        }
        ImageFault::FreeCount(block) => numbered("second image: free count in block ", block, ""),
        ImageFault::FreeOutside(block) => numbered("second image: free block ", block, " outside"),
        ImageFault::NodeOutside(inode, block) => twice_numbered(
            "second image: inode ",
            inode,
            " has block ",
            block,
            " outside",
        ),
        ImageFault::BlockTwice(block) => numbered("second image: block ", block, " twice"),
        ImageFault::NoRoot => plain("second image: no root"),
    }
}

/// The line of why a command has no second disk.
fn second_line(fault: SecondFault) -> Line
    ensures { result.bytes ≡ second_line fault }
{
    match fault {
        SecondFault::Image(fault) => second_fault_line(fault),
        SecondFault::Nodes(count) => numbered("second image: ", count, " nodes in all"),
    }
}

/// What a panic in Lions' book says.
fn panic_line(kind: PanicKind) -> Line
    ensures { result.bytes ≡ panic_line kind }
{
    match kind {
        PanicKind::Swap => plain("panic: out of swap space"),
        PanicKind::Zombie => plain("panic: out of swap"),
        PanicKind::Text => plain("panic: out of text"),
    }
}

/// The line of a status. A command that was done has none.
fn status_line(status: Status) -> Line
    ensures { result.bytes ≡ status_line status }
{
    match status {
        Status::Done => Line::new(),
        Status::Usage => plain(USAGE),
        Status::ReadFault(InPort::Image) => plain("read fault: image"),
        Status::ReadFault(InPort::Script) => plain("read fault: script"),
        Status::ReadFault(InPort::Log) => plain("read fault: log"),
        Status::ReadFault(InPort::Second) => plain("read fault: second"),
        Status::WriteFault(OutPort::Term) => plain("write fault: term"),
        Status::WriteFault(OutPort::Log) => plain("write fault: log"),
        Status::WriteFault(OutPort::Final) => plain("write fault: final"),
        Status::WriteFault(OutPort::Report) => plain("write fault: report"),
        Status::WriteFault(OutPort::Second) => plain("write fault: second"),
        Status::WriteFault(OutPort::Line(line)) => numbered(
            "write fault: line",
            u32::from(line),
            "",
        ),
        Status::CoreSize => plain("core size"),
        Status::ScriptFault(fault) => script_line(fault),
        Status::ImageFault(fault) => fault_line(fault),
        Status::SecondFault(fault) => second_line(fault),
        Status::Panic(kind) => panic_line(kind),
        Status::NoMemory => plain("no memory"),
        Status::Unlawful(line) => long_numbered("log: line ", line, " is not lawful"),
        Status::BadLog(line) => long_numbered("log: line ", line, " is no log line"),
        Status::LogTooLong => plain("log: too long"),
    }
}

/// What `check` tells of a disk.
fn ok_line(tally: Tally) -> Line
    ensures { result.bytes ≡ ok_line tally.nodes tally.free }
{
    twice_numbered(
        "ok ",
        u32::from(tally.nodes),
        " nodes ",
        u32::from(tally.free),
        " free",
    )
}

/// What `demo` tells of its run.
fn demo_line(summary: Summary) -> Line
    ensures { result.bytes ≡ demo_line summary.number summary.shown summary.tally.nodes summary.tally.free }
{
    let mut line = Line::new();
    line.push_str("demo ");
    push_number(&mut line, summary.number);
    line.push_str(": 60000 slots, ");
    push_long(&mut line, summary.shown);
    line.push_str(" shown, ");
    push_number(&mut line, u32::from(summary.tally.nodes));
    line.push_str(" nodes, ");
    push_number(&mut line, u32::from(summary.tally.free));
    line.push_str(" free\n");
    line
}

/// What `audit` tells of a lawful log.
fn lawful_line(lines: u64) -> Line
    ensures { result.bytes ≡ lawful_line lines }
{
    long_numbered("lawful: ", lines, " lines")
}

/// What a command tells that has found this.
fn found_line(found: Found) -> Line
    ensures { result.bytes ≡ found_line found }
{
    match found {
        Found::Disk(tally) => ok_line(tally),
        Found::Run(summary) => demo_line(summary),
        Found::Log(lines) => lawful_line(lines),
    }
}

/// Writes a line to Report.
fn write_line<H: Host>(host: &mut H, line: &Line) -> Result<(), Failed>
    ensures only { OnlyAt (same (Out Report)) (H.outside host.old) (H.outside host.new) }
    ensures whole { OnOk result (Tells (H.outside host.old)
        → (report (H.outside host.new)).bytes ≡ (report (H.outside host.old)).bytes ++ line.now.bytes) }
    ensures front { Tells (H.outside host.old)
        → HoldsFront (report (H.outside host.old)).bytes line.now.bytes (report (H.outside host.new)).bytes }
    ensures cause { MatchResult result (λ _. Calm (H.outside host.old) (H.outside host.new))
        (λ _. FaultAt (Out Report) true (H.outside host.old) (H.outside host.new)) }
{
    write_all(host, OutPort::Report, line.as_str().as_bytes())
}

/// Reports what a command came to: its status, or what it has found where it was done. Where the status can't be written, it
/// stays; where the command was done and its finding can't be written, that is the fault.
#[inline(never)]
pub(crate) fn report<H: Host>(answer: Result<Option<Found>, CommandError>, host: &mut H) -> Status
    requires { (report (H.outside host.old)).faults < 2 ^ 64 - 1 }
    ensures { Reports answer result (H.outside host.old) (H.outside host.new) }
{
    match answer {
        Ok(None) => Status::Done,
        Ok(Some(found)) => match write_line(host, &found_line(found)) {
            Ok(()) => Status::Done,
            Err(Failed) => Status::WriteFault(OutPort::Report),
        },
        Err(error) => {
            let status = Status::from(error);
            let _ = write_line(host, &status_line(status));
            status
        }
    }
}
