//! The command of a program's words, and its report.
ghost use Rattle.std.specs.Prelude.{◌≡◌, ◌≢◌, ◌++◌, true, false, Some, is_some, IsSome, MatchOption, IfOk};
ghost use Rattle.std.specs.Option.{option_map};
ghost use Rattle.v6_port.specs.Outside.{Out, IsIdle, OnlyAt, Tells, is_report};
ghost use Rattle.v6_port.specs.declared.host.OutPort.{OutPort};
ghost use Rattle.abstract_unix.specs.Law.{LogsAreLawful};
ghost use Rattle.abstract_unix.specs.OtherDisk.{CallsLeaveOther};
ghost use Rattle.v6_run.specs.Words.{command_in, command_value};
ghost use Rattle.v6_run.specs.Fronts.{HoldsFront};
ghost use Rattle.v6_run.specs.Report.{report, report_line, told_line};
ghost use Rattle.v6_run.specs.Status.{is_decided, has_written, is_closed};
ghost use Rattle.v6_run.specs.Errors.{command_status, end_of};
ghost use Rattle.v6_run.specs.Causes.{HasCause, MissesUnknown};
ghost use Rattle.v6_run.specs.Headline.{is_core_size, has_core_size, refused_by, reports_done, words_completion, done_line, IsKnownAnd, IsComplete, IsPartial, IsStoppedAt, words_may_end, is_touched, is_known};
ghost use Rattle.v6_run.specs.Logs.{AuditsEndInOneWay};
ghost use Rattle.v6_run.specs.Opened.{words_ports, TellsInputs, AreGood, ports_passed};
ghost use Rattle.v6_run.specs.Answers.{Answers, AnswersWords};

use crate::audit::audit;
use crate::check::check;
use crate::demo::demo;
use crate::error::CommandError;
use crate::make::make;
use crate::report::{Found, report};
use crate::run::run;
use crate::status::Status;
use crate::words::{Command, command_of};
use std::alloc::Global;
use v6_port::Host;

/// Whether so many clicks of 64 bytes are a size of core.
fn is_core_size(core: u32) -> bool
    ensures { result ≡ is_core_size core }
{
    64 <= core && core <= 3968
}

/// Whether the size of core is good, for a command with one.
fn has_core_size(command: &Command<'_>) -> bool
    ensures { result ≡ has_core_size (command_value command.now) }
{
    match command {
        Command::Run(words) => is_core_size(words.core),
        _ => true,
    }
}

/// Does a command with a good size of core, and gives what it has found, but for its report. Each command stands out of line,
/// and has a frame of its own.
#[tactic(auto, using(crate::proofs::CommandLemmas::none_open))]
fn done<H: Host>(
    alloc: Global,
    command: &Command<'_>,
    host: &mut H,
) -> Result<Option<Found>, CommandError>
    requires idle { IsIdle (H.outside host.old) }
    requires good { has_core_size (command_value command.now) ≡ true }
    ensures answers { Answers (command_value command.now) (end_of command_status result)
        (H.outside host.old) (H.outside host.new) }
    ensures line { IfOk result (λ found. Tells (H.outside host.old)
        → done_line (Some (command_value command.now)) (H.outside host.old).fixed ≡ told_line found) }
    ensures found { IfOk result (λ found. is_some found ≡ reports_done (command_value command.now)) }
{
    match command {
        Command::Run(words) => match run(alloc, words, host) {
            Ok(()) => Ok(None),
            Err(error) => Err(CommandError::Run(error)),
        },
        Command::Check(image) => match check(alloc, image, host) {
            Ok(tally) => Ok(Some(Found::Disk(tally))),
            Err(error) => Err(CommandError::Check(error)),
        },
        Command::Make(number, name) => match make(alloc, *number, name, host) {
            Ok(()) => Ok(None),
            Err(error) => Err(CommandError::Make(error)),
        },
        Command::Demo(number) => match demo(alloc, *number, host) {
            Ok(summary) => Ok(Some(Found::Run(summary))),
            Err(error) => Err(CommandError::Run(error)),
        },
        Command::Audit(log) => match audit(log, host) {
            Ok(lines) => Ok(Some(Found::Log(lines))),
            Err(error) => Err(CommandError::Audit(error)),
        },
    }
}

/// Does the command of these words, but for its report.
fn answer<H: Host>(
    alloc: Global,
    words: &[String],
    host: &mut H,
) -> Result<Option<Found>, CommandError>
    requires { IsIdle (H.outside host.old) }
    ensures answers { AnswersWords (command_in words.now) (end_of command_status result)
        (H.outside host.old) (H.outside host.new) }
    ensures line { IfOk result (λ found. Tells (H.outside host.old)
        → done_line (command_in words.now) (H.outside host.old).fixed ≡ told_line found) }
    ensures found { IfOk result (λ found. option_map reports_done (command_in words.now) ≡ Some (is_some found)) }
{
    let Some(command) = command_of(words) else {
        return Err(CommandError::Usage);
    };
    if !has_core_size(&command) {
        return Err(CommandError::CoreSize);
    }
    done(alloc, &command, host)
}

/// Does the command of these words, which are the command line's without the program's name, and reports how it ended.
///
/// The commands are:
///
/// - `run IMAGE CORE SCRIPT TERM LOG FINAL` boots the disk IMAGE with CORE clicks of memory, takes it through what SCRIPT
///   asks for, and writes to TERM what the terminal shows, to LOG what the kernel decides, and to FINAL the disk that is
///   left.
/// - `run8 IMAGE CORE SCRIPT TERM LOG FINAL` does the same with eight terminal lines. Line 0 is the console, whose bytes go to
///   TERM; those of line 1 go to TERM.1, and so on to TERM.7.
/// - `run2 IMAGE CORE SCRIPT TERM LOG FINAL IMAGE2 FINAL2` does the same as `run` with a second disk, IMAGE2, which may be
///   mounted, and writes to FINAL2 what is left of it.
/// - `memory IMAGE CORE SCRIPT FINAL` does the same as `run`, and writes to FINAL alone: the bytes of core and then those of
///   the swap area.
/// - `check IMAGE` tells how many nodes and free blocks the disk IMAGE has, or the first of its faults.
/// - `make N FINAL` writes the disk image of the number N to FINAL.
/// - `demo N` takes this disk, with 100 clicks of core, through a script that shows the most of the kernel, and tells what that
///   came to. It reads and writes no file.
/// - `audit LOG` tells whether the lines of LOG are a lawful log, or the first line that is at fault. It goes by the lines
///   alone.
///
/// Any other words are [`Status::Usage`]. `run`, `run8`, `run2`, `memory` and `make` report nothing where they were done; any
/// other status is reported in one line.
pub fn v6<H: Host>(alloc: Global, words: &Vec<String>, host: &mut H) -> Status
    requires { IsIdle (H.outside host.old) }

    // No port is touched but those for which the words have a name, and Report.
    ensures only { OnlyAt (is_touched (command_in words.now.items)) (H.outside host.old) (H.outside host.new) }

    // The words alone give Usage and CoreSize, exactly, and no file is opened then. Else the status is one that the command may
    // end with: want of memory is NoMemory, and never stands in a ScriptFault.
    ensures words { MatchOption (refused_by (command_in words.now.items))
        (words_may_end (command_in words.now.items) result ≡ true) (λ refusal. result ≡ refusal) }
    ensures unopened { IsSome (refused_by (command_in words.now.items))
        → OnlyAt is_report (H.outside host.old) (H.outside host.new) }

    // Done, ScriptFault, ImageFault, SecondFault, Panic, Unlawful, BadLog and LogTooLong are exactly what the command's files
    // come to, and each file has got all of a text that may be written to it. At a write fault each has got a front of one, or
    // nothing; and one of Report is answered only where the command would else be done.
    ensures complete { is_decided result ≡ true → TellsInputs (words_ports (command_in words.now.items)) (H.outside host.old)
        → IsKnownAnd (words_completion (command_in words.now.items) (H.outside host.old).fixed)
        (IsComplete result (H.outside host.old) (H.outside host.new)) }
    ensures partial { (p : OutPort) → result ≡ Status.WriteFault p
        → TellsInputs (words_ports (command_in words.now.items)) (H.outside host.old)
        → IsKnownAnd (words_completion (command_in words.now.items) (H.outside host.old).fixed)
        (IsPartial p (H.outside host.old) (H.outside host.new)) }

    // The files are opened one after another, then written in their order, and then finished in the order in which they were
    // opened. A write fault of one but Report comes in one of these three: those opened before it are open, and nothing was
    // written; or all are open, and each that is written before it has got all of its text; or all have got their texts, and
    // those that are finished before it are closed.
    ensures steps { (p : OutPort) → result ≡ Status.WriteFault p → is_report (Out p) ≡ false
        → TellsInputs (words_ports (command_in words.now.items)) (H.outside host.old)
        → IsKnownAnd (words_completion (command_in words.now.items) (H.outside host.old).fixed)
        (IsStoppedAt (words_ports (command_in words.now.items)) p (H.outside host.old) (H.outside host.new)) }

    // The files are opened in their order, and each that comes before the one at fault is good: an image or a script without a
    // fault, an output under the name that is expected. After done and a panic all are, and before they are no byte goes out.
    ensures order { Tells (H.outside host.old)
        → AreGood (H.outside host.old).fixed (ports_passed result (words_ports (command_in words.now.items))) }
    ensures opened { Tells (H.outside host.old) → (p : OutPort) → is_report (Out p) ≡ false
        → ((H.outside host.new).port (Out p)).bytes ≢ ((H.outside host.old).port (Out p)).bytes
        → AreGood (H.outside host.old).fixed (words_ports (command_in words.now.items)) }

    // With a status that is fixed before the first byte goes out the ports are as they were. After done and a panic they are
    // closed.
    ensures none { has_written result ≡ false
        → (p : OutPort) → is_report (Out p) ≡ false → (H.outside host.new).port (Out p) ≡ (H.outside host.old).port (Out p) }
    ensures closed { is_closed result ≡ true
        → (p : OutPort) → is_report (Out p) ≡ false → ((H.outside host.new).port (Out p)).is_open ≡ false }

    // Each line of the log of a run has its numbers in their ranges and fits what the lines before it give, so that each choice
    // is one that the rules give; and the log of a run that comes to the end of its script, or to a panic, is lawful.
    ensures lawful { LogsAreLawful }

    // Of two disks a call leaves the one alone with which it has nothing to do.
    ensures apart { CallsLeaveOther }

    // The bytes of a log fix what an audit of it answers.
    ensures audited { AuditsEndInOneWay }

    // A fault is answered only where its port's faults rose, and a name is missing only where it isn't known.
    ensures cause { HasCause result (H.outside host.old) (H.outside host.new) }
    ensures missing { MissesUnknown (is_known (command_in words.now.items) (H.outside host.old).fixed)
        (H.outside host.old) (H.outside host.new) }

    // Report has got the line of the status, or of what a command that was done has found, or a front of it where its faults
    // rose.
    ensures reported { Tells (H.outside host.old) → (report (H.outside host.new)).faults ≡ (report (H.outside host.old)).faults
        → (report (H.outside host.new)).bytes ≡ (report (H.outside host.old)).bytes
        ++ report_line (done_line (command_in words.now.items) (H.outside host.old).fixed) result }
    ensures report_front { Tells (H.outside host.old)
        → HoldsFront (report (H.outside host.old)).bytes
        (report_line (done_line (command_in words.now.items) (H.outside host.old).fixed) result)
        (report (H.outside host.new)).bytes }
{
    let answer = answer(alloc, words.as_slice(), host);
    report(answer, host)
}
