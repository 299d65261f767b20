//! What a run shows, written to the ports of a host.
ghost use Rattle.std.specs.Prelude.{◌≡◌, ℕ, true, false, ◌++◌, ◌∷◌, [], ◌<◌, ◌≤◌, drop, length, IfSome, OnOk, OnErr, MatchResult};
ghost use Rattle.v6_port.specs.Outside.{Out, IsOpen, IsThere, OnlyAt, Tells, same};
ghost use Rattle.v6_port.specs.Causes.{Calm, FaultAt};
ghost use Rattle.v6_port.specs.declared.host.OutPort.TheVariants.{Log};
ghost use Rattle.v6_run.specs.Opened.{line_port};
ghost use Rattle.v6_run.specs.Ports.{is_silent, failed_port, one_more, counted, counted_on, HasCounted};

use crate::files::{write_byte, write_text};
use log_text::{Line, put_line};
use take_script::TellsCut;
use v6_base::{Entry, LINES, Trace};
use v6_port::{Failed, Host, OutPort};

/// The port to which the bytes of a terminal line go.
#[tactic(auto, using(crate::proofs::LinePorts::first_port, crate::proofs::LinePorts::other_port))]
pub(crate) fn line_port(line: u8) -> OutPort
    ensures { result ≡ line_port line }
{
    if line == 0 {
        OutPort::Term
    } else {
        OutPort::Line(line)
    }
}

/// The greatest number of bytes that is counted.
const MOST: u64 = u64::MAX;

/// What was not written.
#[derive(Drop)]
enum Kept {
    Nothing,
    /// A byte of a terminal line, with the line's number.
    Byte(u8, u8),
    /// The rest of a line of the log, with its line feed.
    Line(Line),
    /// All of it: nobody wants what the run shows.
    Unwanted,
    /// All of it: nobody wants more than how many bytes the console is shown, which are so many.
    Count(u64),
}

/// A trace over the ports of so many terminal lines and of the log. A byte on another line is dropped. A line of the log goes
/// out as one piece. The trace is cut where a write fails, and keeps what was not written of that byte or line. A trace of
/// which nothing is wanted writes nothing, and is never cut; one that counts writes nothing, and is cut at the greatest
/// number. A run with each of them is the same code, so that the loop over slots stands once.
#[derive(Drop)]
pub(crate) struct Ports<'a, H: Host> {
    host: &'a mut H,
    lines: u8,
    kept: Kept,
    ghost lines_are_open: { is_silent kept ≡ false → (l : ℕ) → l < lines → IsOpen (H.outside host.now) (Out (line_port l)) },
    ghost log_is_open: { is_silent kept ≡ false → IsOpen (H.outside host.now) (Out Log) },
}

impl<'a, H: Host> Ports<'a, H> {
    ghost use Rattle.v6_run.specs.declared.ports.Kept.TheVariants.{Nothing, Unwanted, Count};

    /// A trace over so many lines of which nothing is taken yet.
    pub(crate) fn new(host: &'a mut H, lines: u8) -> Self
        requires lines { (l : ℕ) → l < lines → IsOpen (H.outside host.old) (Out (line_port l)) }
        requires log { IsOpen (H.outside host.old) (Out Log) }
        ensures same_reference { result.host.ghost_name ≡ host.entry.ghost_name }
        ensures outside { result.host.now ≡ host.old }
        ensures kept { result.kept ≡ Nothing }
        ensures lines { result.lines ≡ lines }
    {
        Ports {
            host,
            lines,
            kept: Kept::Nothing,
        }
    }

    /// A trace of which nothing is wanted.
    pub(crate) fn unwanted(host: &'a mut H) -> Self
        ensures same_reference { result.host.ghost_name ≡ host.entry.ghost_name }
        ensures outside { result.host.now ≡ host.old }
        ensures kept { result.kept ≡ Unwanted }
    {
        Ports {
            host,
            lines: 0,
            kept: Kept::Unwanted,
        }
    }

    /// A trace that writes nothing and counts the bytes of the console.
    pub(crate) fn counting(host: &'a mut H) -> Self
        ensures same_reference { result.host.ghost_name ≡ host.entry.ghost_name }
        ensures outside { result.host.now ≡ host.old }
        ensures kept { result.kept ≡ Count 0 }
    {
        Ports {
            host,
            lines: 0,
            kept: Kept::Count(0),
        }
    }

    /// Whether nothing is written any more, or nothing is to be written.
    fn is_silent(&self) -> bool
        ensures { result ≡ is_silent self.now.kept }
    {
        match &self.kept {
            Kept::Nothing => false,
            Kept::Byte(..) | Kept::Line(_) | Kept::Unwanted | Kept::Count(_) => true,
        }
    }

    /// The port that could not be written, where one could not.
    pub(crate) fn failed(&self) -> Option<OutPort>
        ensures { result ≡ failed_port self.now.kept }
    {
        match &self.kept {
            Kept::Nothing | Kept::Unwanted | Kept::Count(_) => None,
            Kept::Byte(line, _) => Some(line_port(*line)),
            Kept::Line(_) => Some(OutPort::Log),
        }
    }

    /// How many bytes the console was shown, of a trace that counts them. At the greatest number more may have come.
    pub(crate) fn count(&self) -> Option<u64>
        ensures { IfSome result (λ count. HasCounted self.now.kept count) }
    {
        match &self.kept {
            Kept::Count(count) if *count != MOST => Some(*count),
            _ => None,
        }
    }
}

/// One more, up to the greatest number.
fn one_more(count: u64) -> u64
    ensures { result ≡ one_more count }
{
    if count == MOST { count } else { count + 1 }
}

/// Counts a byte of the console, where such bytes are counted.
#[inline(never)]
fn count_byte(kept: &mut Kept)
    ensures { kept.new ≡ counted kept.old }
{
    if let Kept::Count(count) = kept {
        *count = one_more(*count);
    }
}

/// Takes a byte of a terminal line that isn't written. Those of the console alone are counted.
fn keep(kept: &mut Kept, line: u8)
    ensures { kept.new ≡ counted_on line kept.old }
{
    if line == 0 {
        count_byte(kept);
    }
}

/// What is left of a line after so many bytes.
fn rest_of(line: &Line, count: usize) -> Line
    requires { count ≤ length line.now.items }
    ensures { result.items ≡ drop count line.now.items }
{
    let mut rest = Line::new();
    let Ok(()) = rest.try_extend_from_slice(&line.as_slice()[count..]) else {
        unreachable!()
    };
    rest
}

/// A byte could not be written. It stands by itself, as the next does, so that a byte that is written pays nothing for the room
/// of what is kept.
#[inline(never)]
fn keep_byte(kept: &mut Kept, line: u8, byte: u8)
    ensures { kept.new ≡ Kept.Byte line byte }
{
    *kept = Kept::Byte(line, byte);
}

/// So many bytes of a line were written, and the others could not be.
#[inline(never)]
fn keep_line(kept: &mut Kept, line: &Line, count: usize)
    requires { count ≤ length line.now.items }
    ensures { kept.new ≡ Kept.Line (record { items = drop count line.now.items }) }
{
    *kept = Kept::Line(rest_of(line, count));
}

/// Writes a byte of a terminal line. The console is told apart from the other lines, so that a write to its port is put
/// together for that port alone.
#[inline(always)]
fn write_on<H: Host>(host: &mut H, line: u8, byte: u8) -> Result<(), Failed>
    requires is_open { IsOpen (H.outside host.old) (Out (line_port line)) }
    requires there { IsThere (line_port line) }
    ensures only { OnlyAt (same (Out (line_port line))) (H.outside host.old) (H.outside host.new) }
    ensures is_open { IsOpen (H.outside host.new) (Out (line_port line)) }
    ensures whole { OnOk result (Tells (H.outside host.old) → ((H.outside host.new).port (Out (line_port line))).bytes
        ≡ ((H.outside host.old).port (Out (line_port line))).bytes ++ byte ∷ []) }
    ensures stays { OnErr result (((H.outside host.new).port (Out (line_port line))).bytes
        ≡ ((H.outside host.old).port (Out (line_port line))).bytes) }
    ensures cause { MatchResult result (λ _. Calm (H.outside host.old) (H.outside host.new))
        (λ _. FaultAt (Out (line_port line)) true (H.outside host.old) (H.outside host.new)) }
{
    if line == 0 {
        write_byte(host, OutPort::Term, byte)
    } else {
        write_byte(host, OutPort::Line(line), byte)
    }
}

impl<'a, H: Host> Ports<'a, H> {
    ghost use Rattle.std.specs.Prelude.{◌∷◌, []};
    ghost use Rattle.v6_base.specs.Trace.{Byte, Took, Appends};
    ghost use Rattle.v6_base.specs.Trace as trace;
    ghost use Rattle.v6_run.specs.Ports.{taken_by, Goes};

    /// Writes a line of the log, where such are written.
    fn show_entry(&mut self, e: &Entry)
        requires loud { is_silent self.old.kept ≡ false }
        ensures took { Took (taken_by self.old.lines (H.outside self.old.host.now) self.old.kept) (trace.Log e.now ∷ [])
            (taken_by self.new.lines (H.outside self.new.host.now) self.new.kept) }
        ensures whole { Appends (taken_by self.old.lines (H.outside self.old.host.now) self.old.kept) (trace.Log e.now)
            (taken_by self.new.lines (H.outside self.new.host.now) self.new.kept) }
        ensures goes { Goes self.old.lines (H.outside self.old.host.now) self.old.kept
            (H.outside self.new.host.now) self.new.kept }
        ensures same_reference { self.new.host.ghost_name ≡ self.old.host.ghost_name }
        ensures lines { self.new.lines ≡ self.old.lines }
    {
        let mut line = Line::new();
        put_line(&mut line, e);
        if let Err(count) = write_text(self.host, OutPort::Log, line.as_slice()) {
            keep_line(&mut self.kept, &line, count);
        }
    }

    /// Writes a byte of a line that has a port, where bytes are written.
    fn show(&mut self, line: u8, byte: u8)
        requires loud { is_silent self.old.kept ≡ false }
        requires there { line < self.old.lines }
        requires eight { line < LINES }
        ensures took { Took (taken_by self.old.lines (H.outside self.old.host.now) self.old.kept) (Byte line byte ∷ [])
            (taken_by self.new.lines (H.outside self.new.host.now) self.new.kept) }
        ensures whole { Appends (taken_by self.old.lines (H.outside self.old.host.now) self.old.kept) (Byte line byte)
            (taken_by self.new.lines (H.outside self.new.host.now) self.new.kept) }
        ensures goes { Goes self.old.lines (H.outside self.old.host.now) self.old.kept
            (H.outside self.new.host.now) self.new.kept }
        ensures same_reference { self.new.host.ghost_name ≡ self.old.host.ghost_name }
        ensures lines { self.new.lines ≡ self.old.lines }
    {
        if write_on(self.host, line, byte).is_err() {
            keep_byte(&mut self.kept, line, byte);
        }
    }
}

impl<'a, H: Host> Trace for Ports<'a, H> {
    ghost use Rattle.std.proofs.Common.{refl, ◌∙◌};
    ghost use Rattle.v6_run.specs.Ports.{taken_by, Goes};
    ghost use Rattle.v6_run.specs.PortLaws.{Goes-same, goes_then};

    ghost taken = { λ t. taken_by t.lines (H.outside t.host.now) t.kept };

    ghost leads_to = { λ a b. Goes a.lines (H.outside a.host.now) a.kept (H.outside b.host.now) b.kept
        × (b.host.ghost_name ≡ a.host.ghost_name) × (b.lines ≡ a.lines) };

    ghost stays = { λ t. (Goes-same t.lines (H.outside t.host.now) t.kept, refl, refl) };

    ghost goes_on = { λ a b c first second.
        (goes_then _ _ _ _ _ _ _ _ first.2 first.0 second.0, second.1 ∙ first.1, second.2 ∙ first.2) };

    fn entry(&mut self, e: Entry) {
        if self.is_silent() {
            return;
        }
        self.show_entry(&e);
    }

    fn out_on(&mut self, line: u8, byte: u8) {
        if self.is_silent() {
            keep(&mut self.kept, line);
            return;
        }
        if line < self.lines {
            self.show(line, byte);
        }
    }
}

impl<'a, H: Host> TellsCut for Ports<'a, H> {
    fn is_cut(&self) -> bool {
        match &self.kept {
            Kept::Nothing | Kept::Unwanted => false,
            Kept::Byte(..) | Kept::Line(_) => true,
            Kept::Count(count) => *count == MOST,
        }
    }
}
