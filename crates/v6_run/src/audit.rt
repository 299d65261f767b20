//! The command `audit`.
ghost use Rattle.std.specs.Prelude.{◌≡◌, ◌<◌, ◌≤◌, ◌+◌, ◌++◌, [], ◌∷◌, ℕ, List, Some, length, take, true, IfOk, IfErr, OnOk, MatchResult};
ghost use Rattle.v6_port.specs.Outside.{In, IsOpen, OnlyAt, Tells, same};
ghost use Rattle.v6_port.specs.declared.host.InPort.TheVariants.{Log};
ghost use Rattle.v6_port.specs.Causes.{Calm};
ghost use Rattle.v6_run.specs.declared.audit.TheConstants.{LOG_LIMIT};
ghost use Rattle.v6_run.specs.Words as words;
ghost use Rattle.v6_run.specs.Report.{lawful_line};
ghost use Rattle.v6_run.specs.Headline.{done_line};
ghost use Rattle.v6_run.specs.Errors.{end_of, log_status};
ghost use Rattle.v6_run.specs.Answers.{Answers};
ghost use Rattle.v6_run.specs.Audit.{HasRead, HasRoom, IsAtFault, Sums, Closes, AuditsTo, StopsLog};
ghost use Rattle.v6_run.specs.Logs.{ended_lines};

use arrayvec::ArrayVec;
use log_audit::{Audit, Judged};
use v6_port::{Host, InPort};

/// The most bytes of a log that are read: one more than 2^40.
pub(crate) const LOG_LIMIT: u64 = 1_099_511_627_777;

/// The most bytes of a line, without its LF.
const MAX_LINE: usize = 80;

/// Why a log is not lawful, or isn't known to be.
#[derive(Clone, Copy)]
pub(crate) enum LogError {
    /// Its port failed.
    Unread,
    /// This line is the first at fault, and is a line of a log; or the log ends before it.
    Unlawful(u64),
    /// This line is the first at fault, and is no line of a log.
    Bad(u64),
    /// It has more than 2^40 bytes, of which the first 2^40 + 1 have no fault.
    TooLong,
}

/// What was read of a log: its lines, each of which fits, how many they are, and the bytes of one that isn't ended.
#[derive(Drop)]
struct Reading {
    audit: Audit,
    lines: u64,
    line: ArrayVec<u8, MAX_LINE>,
}

impl Reading {
    /// Nothing was read.
    fn new() -> Reading
        ensures { HasRead [] result }
    {
        Reading {
            audit: Audit::new(),
            lines: 0,
            line: ArrayVec::new(),
        }
    }

    /// Judges the bytes behind the last line, which are a line.
    fn end_line(&mut self) -> Result<(), LogError>
        requires { HasRoom self.old }
        ensures read { OnOk result ((front : List ℕ) → HasRead front self.old → HasRead (front ++ 0o012 ∷ []) self.new) }
        ensures fault { IfErr result (λ error. (front : List ℕ) → HasRead front self.old
            → IsAtFault (front ++ 0o012 ∷ []) error) }
    {
        match self.audit.line(self.line.as_slice()) {
            Judged::Good => {
                self.lines += 1;
                self.line.clear();
                Ok(())
            }
            Judged::Unlawful => Err(LogError::Unlawful(self.lines + 1)),
            Judged::Bad => Err(LogError::Bad(self.lines + 1)),
        }
    }

    /// Takes a byte. A line with more bytes than a line may have is no line of a log.
    fn take_byte(&mut self, byte: u8) -> Result<(), LogError>
        requires { HasRoom self.old }
        ensures read { OnOk result ((front : List ℕ) → HasRead front self.old → HasRead (front ++ byte ∷ []) self.new) }
        ensures fault { IfErr result (λ error. (front : List ℕ) → HasRead front self.old
            → IsAtFault (front ++ byte ∷ []) error) }
    {
        if byte == b'\n' {
            return self.end_line();
        }
        if self.line.is_full() {
            return Err(LogError::Bad(self.lines + 1));
        }
        self.line.push(byte);
        Ok(())
    }

    /// Takes bytes, up to the first line at fault.
    fn take(&mut self, bytes: &[u8]) -> Result<(), LogError>
        requires { (front : List ℕ) × HasRead front self.old × (length front + length bytes.now ≤ LOG_LIMIT) }
        ensures read { OnOk result ((front : List ℕ) → HasRead front self.old → HasRead (front ++ bytes.now) self.new) }
        ensures fault { IfErr result (λ error. (front : List ℕ) → HasRead front self.old
            → (count : ℕ) × (count ≤ length bytes.now) × IsAtFault (front ++ take count bytes.now) error) }
    {
        for byte in bytes {
            self.take_byte(*byte)?;
        }
        Ok(())
    }

    /// No line comes any more: how many there are, where the last ends the log.
    fn sum(&self) -> Result<u64, LogError>
        requires { HasRoom self.now }
        ensures { (front : List ℕ) → HasRead front self.now → Sums (ended_lines front) result }
    {
        if self.audit.ended() {
            Ok(self.lines)
        } else {
            Err(LogError::Unlawful(self.lines + 1))
        }
    }

    /// The file has ended: what stands behind the last line is one too, if anything does. The answer is the number of lines.
    fn close(&mut self) -> Result<u64, LogError>
        requires { (front : List ℕ) × HasRead front self.old × (length front < LOG_LIMIT) }
        ensures { (front : List ℕ) → HasRead front self.old → Closes front result }
    {
        if self.line.is_empty() {
            return self.sum();
        }
        self.end_line()?;
        self.sum()
    }
}

/// Reads what is left of the open log, and judges each line as it comes. The answer is the number of lines of a lawful log. No
/// more is kept of it than one line.
fn read_log<H: Host>(host: &mut H) -> Result<u64, LogError>
    requires { IsOpen (H.outside host.old) (In Log) }
    ensures only { OnlyAt (same (In Log)) (H.outside host.old) (H.outside host.new) }
    ensures answer { Tells (H.outside host.old) → AuditsTo ((H.outside host.old).port (In Log)).bytes result }
    ensures cause { MatchResult result (λ _. Calm (H.outside host.old) (H.outside host.new))
        (λ error. StopsLog true error (H.outside host.old) (H.outside host.new)) }
{
    let mut reading = Reading::new();
    let mut total: u64 = 0;
    let mut buffer = [0u8; 4096];
    'file: while total < LOG_LIMIT {
        let wanted = (LOG_LIMIT - total).min(4096) as usize;
        let Ok(count) = host.read(InPort::Log, &mut buffer[..wanted]) else {
            return Err(LogError::Unread);
        };
        if count == 0 {
            return reading.close();
        }
        reading.take(&buffer[..count])?;
        total += count as u64;
    }
    Err(LogError::TooLong)
}

/// The command `audit`: how many lines the lawful log of this name has.
#[inline(never)]
pub(crate) fn audit<H: Host>(name: &str, host: &mut H) -> Result<u64, LogError>
    ensures answers { Answers (words.Audit name.now) (end_of log_status result) (H.outside host.old) (H.outside host.new) }
    ensures line { IfOk result (λ lines. Tells (H.outside host.old)
        → done_line (Some (words.Audit name.now)) (H.outside host.old).fixed ≡ lawful_line lines) }
{
    if host.open_read(InPort::Log, name).is_err() {
        return Err(LogError::Unread);
    }
    read_log(host)
}
