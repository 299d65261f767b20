//! The terminal lines.
ghost use Rattle.std.specs.Prelude.{◌≡◌, ◌≤◌, ◌<◌, ◌⊎◌, length};
ghost use Rattle.std.specs.List.{All, list_any};
ghost use Rattle.v6_base.specs.Trace as items;
ghost use Rattle.v6_base.specs.Trace.{sent};
ghost use Rattle.tty_line.specs.Said.{holds, flush, closed, with_modes, sends, paced};
ghost use Rattle.tty_line.specs.Output.{written};
ghost use Rattle.tty_line.specs.Input.{typed};
ghost use Rattle.tty_line.specs.Reading.{reads};
ghost use Rattle.lines_eight.specs.Lines.{first_lines, terminal_at, with_terminal, HasRoom};
ghost use Rattle.lines_eight.specs.LineRun.{
  comes,
  Open,
  Close,
  Key,
  Read,
  Write,
  Modes,
  SetModes,
  Send,
  SetPace,
  Flush,
  IsOpen,
  Tells,
  Typed,
  Reads,
  Wrote,
  Words,
};

use crate::on_line::on_line;
use arrayvec::ArrayVec;
use std::marker::Model;
use tty_line::{Keyed, Line, Took};
use v6_base::{LINES, Space, Trace};

/// For how many lines there is room.
const ROOM: usize = LINES as usize;

/// One terminal line or eight, numbered from 0, which is the console's: the character devices 0,0 to 0,7. Each call of a line
/// is that of `Line` with the same name, and leaves the other lines alone; what goes out goes out under the line's number.
#[derive(Drop)]
pub struct Lines {
    lines: ArrayVec<Line, ROOM>,
}

impl Model for Lines {
    ghost use Rattle.std.specs.Prelude.{List};
    ghost use Rattle.tty_line.specs.Terminal.{Terminal};
    ghost use Rattle.lines_eight.specs.Lines.{AreLines};

    ghost Value = { List Terminal };

    ghost view = { λ l. l.lines.items };

    ghost invariant = { λ l. AreLines l.lines.items };
}

/// Closes a line, under its number.
#[inline(always)]
#[tactic(auto, using(crate::proofs::OnLineLemmas::took_on_line))]
fn closed_on<T: Trace>(line: &mut Line, l: u8, trace: &mut T) -> bool
    requires { l < LINES }
    ensures line { line.new ≡ (closed line.old).terminal }
    ensures show { result ≡ (closed line.old).show }
    ensures items { items.Took (T.taken trace.old) (sent l (closed line.old).shown) (T.taken trace.new) }
    ensures frame { T.leads_to trace.old trace.new }
{
    let mut seen = on_line(l, trace);
    line.closed(&mut seen)
}

/// Sends the first of the bytes that wait, under the number of the line.
#[inline(always)]
#[tactic(auto, using(crate::proofs::OnLineLemmas::took_on_line))]
fn send_on<T: Trace>(line: &mut Line, l: u8, trace: &mut T) -> bool
    requires { l < LINES }
    ensures line { line.new ≡ (sends line.old).terminal }
    ensures show { result ≡ (sends line.old).show }
    ensures items { items.Took (T.taken trace.old) (sent l (sends line.old).shown) (T.taken trace.new) }
    ensures frame { T.leads_to trace.old trace.new }
{
    let mut seen = on_line(l, trace);
    line.send(&mut seen)
}

/// Turns the pace of a line on or off, under its number.
#[inline(always)]
#[tactic(auto, using(crate::proofs::OnLineLemmas::took_on_line))]
fn set_pace_on<T: Trace>(line: &mut Line, l: u8, on: bool, trace: &mut T) -> bool
    requires { l < LINES }
    ensures line { line.new ≡ (paced line.old on).terminal }
    ensures show { result ≡ (paced line.old on).show }
    ensures items { items.Took (T.taken trace.old) (sent l (paced line.old on).shown) (T.taken trace.new) }
    ensures frame { T.leads_to trace.old trace.new }
{
    let mut seen = on_line(l, trace);
    line.set_pace(on, &mut seen)
}

/// Whether bytes wait to go out on one of these lines.
fn any_holds(lines: &[Line]) -> bool
    ensures { result ≡ list_any holds lines.now }
{
    for l in 0..lines.len() {
        if lines[l].holds() {
            return true;
        }
    }
    false
}

impl Lines {
    /// So many lines that nobody has opened yet. It stands out of line: they take 12,672 bytes of a frame.
    #[inline(never)]
    pub fn new(count: u8) -> Lines
        requires { (count ≡ 1) ⊎ (count ≡ 8) }
        ensures { result ≡ first_lines count }
    {
        let mut lines = ArrayVec::new();
        for _ in 0..count {
            lines.push(Line::new());
        }
        Lines { lines }
    }

    /// How many lines there are. On none of them more than 1,008 bytes wait to go out.
    pub fn count(&self) -> u8
        ensures count { result ≡ length self.now }
        ensures some { 1 ≤ result }
        ensures eight { result ≤ LINES }
        ensures most { All HasRoom self.now }
    {
        self.lines.len() as u8
    }

    /// Whether bytes wait to go out on one of the lines.
    pub fn holds(&self) -> bool
        ensures { result ≡ list_any holds self.now }
    {
        any_holds(self.lines.as_slice())
    }

    /// Whether a line is open.
    pub fn is_open(&self, l: u8) -> bool
        requires { l < length self.now }
        ensures open { result ≡ (terminal_at self.now l).is_open }
        ensures answer { Tells result ≡ (comes IsOpen (terminal_at self.now l)).answer }
    {
        self.lines.as_slice()[usize::from(l)].is_open()
    }

    /// The modes of a line.
    pub fn modes(&self, l: u8) -> [u16; 3]
        requires { l < length self.now }
        ensures words { result ≡ (terminal_at self.now l).modes }
        ensures answer { Words result ≡ (comes Modes (terminal_at self.now l)).answer }
    {
        self.lines.as_slice()[usize::from(l)].modes()
    }

    /// Opens a line.
    pub fn opened(&mut self, l: u8)
        requires { l < length self.old }
        ensures { self.new ≡ with_terminal self.old l (comes Open (terminal_at self.old l)).terminal }
    {
        self.lines.as_mut_slice()[usize::from(l)].opened();
    }

    /// Loses all that was typed on a line and the bytes that wait to go out.
    pub fn flush(&mut self, l: u8) -> bool
        requires { l < length self.old }
        ensures line { self.new ≡ with_terminal self.old l (comes Flush (terminal_at self.old l)).terminal }
        ensures show { result ≡ (flush (terminal_at self.old l)).show }
        ensures answer { Tells result ≡ (comes Flush (terminal_at self.old l)).answer }
    {
        self.lines.as_mut_slice()[usize::from(l)].flush()
    }

    /// Reads bytes of a line into a memory.
    pub fn read<S: Space>(&mut self, l: u8, space: &mut S, at: u16, count: u16) -> Took
        requires { l < length self.old }
        ensures line { self.new
            ≡ with_terminal self.old l (comes (Read (S.image space.old) at count) (terminal_at self.old l)).terminal }
        ensures image { S.image space.new ≡ (reads (terminal_at self.old l) (S.image space.old) at count).image }
        ensures took { result ≡ (reads (terminal_at self.old l) (S.image space.old) at count).took }
        ensures answer { Reads (S.image space.new) result
            ≡ (comes (Read (S.image space.old) at count) (terminal_at self.old l)).answer }
        ensures memory { S.rest space.new ≡ S.rest space.old }
    {
        self.lines.as_mut_slice()[usize::from(l)].read(space, at, count)
    }
}

#[tactic(auto, using(crate::proofs::OnLineLemmas::took_on_line))]
impl Lines {
    /// Closes a line.
    pub fn closed<T: Trace>(&mut self, l: u8, trace: &mut T) -> bool
        requires { l < length self.old }
        ensures line { self.new ≡ with_terminal self.old l (comes Close (terminal_at self.old l)).terminal }
        ensures show { result ≡ (closed (terminal_at self.old l)).show }
        ensures answer { Tells result ≡ (comes Close (terminal_at self.old l)).answer }
        ensures items { items.Took (T.taken trace.old) (sent l (comes Close (terminal_at self.old l)).shown) (T.taken trace.new) }
        ensures frame { T.leads_to trace.old trace.new }
    {
        let lines = self.lines.as_mut_slice();
        closed_on(&mut lines[usize::from(l)], l, trace)
    }

    /// Sets the modes of a line.
    pub fn set_modes<T: Trace>(&mut self, l: u8, v: [u16; 3], trace: &mut T) -> bool
        requires { l < length self.old }
        ensures line { self.new ≡ with_terminal self.old l (comes (SetModes v) (terminal_at self.old l)).terminal }
        ensures show { result ≡ (with_modes (terminal_at self.old l) v).show }
        ensures answer { Tells result ≡ (comes (SetModes v) (terminal_at self.old l)).answer }
        ensures items { items.Took (T.taken trace.old) (sent l (comes (SetModes v) (terminal_at self.old l)).shown)
            (T.taken trace.new) }
        ensures frame { T.leads_to trace.old trace.new }
    {
        let lines = self.lines.as_mut_slice();
        let mut on = on_line(l, trace);
        lines[usize::from(l)].set_modes(v, &mut on)
    }

    /// Sends the first of the bytes that wait on a line.
    pub fn send<T: Trace>(&mut self, l: u8, trace: &mut T) -> bool
        requires { l < length self.old }
        ensures line { self.new ≡ with_terminal self.old l (comes Send (terminal_at self.old l)).terminal }
        ensures show { result ≡ (sends (terminal_at self.old l)).show }
        ensures answer { Tells result ≡ (comes Send (terminal_at self.old l)).answer }
        ensures items { items.Took (T.taken trace.old) (sent l (comes Send (terminal_at self.old l)).shown) (T.taken trace.new) }
        ensures frame { T.leads_to trace.old trace.new }
    {
        let lines = self.lines.as_mut_slice();
        send_on(&mut lines[usize::from(l)], l, trace)
    }

    /// Turns the pace of a line on or off.
    pub fn set_pace<T: Trace>(&mut self, l: u8, on: bool, trace: &mut T) -> bool
        requires { l < length self.old }
        ensures line { self.new ≡ with_terminal self.old l (comes (SetPace on) (terminal_at self.old l)).terminal }
        ensures show { result ≡ (paced (terminal_at self.old l) on).show }
        ensures answer { Tells result ≡ (comes (SetPace on) (terminal_at self.old l)).answer }
        ensures items { items.Took (T.taken trace.old) (sent l (comes (SetPace on) (terminal_at self.old l)).shown) (T.taken trace.new) }
        ensures frame { T.leads_to trace.old trace.new }
    {
        let lines = self.lines.as_mut_slice();
        set_pace_on(&mut lines[usize::from(l)], l, on, trace)
    }

    /// Takes a byte that is typed on a line.
    pub fn typed<T: Trace>(&mut self, l: u8, b: u8, trace: &mut T) -> Keyed
        requires { l < length self.old }
        ensures line { self.new ≡ with_terminal self.old l (comes (Key b) (terminal_at self.old l)).terminal }
        ensures keyed { result ≡ (typed (terminal_at self.old l) b).keyed }
        ensures answer { Typed result ≡ (comes (Key b) (terminal_at self.old l)).answer }
        ensures items { items.Took (T.taken trace.old) (sent l (comes (Key b) (terminal_at self.old l)).shown) (T.taken trace.new) }
        ensures frame { T.leads_to trace.old trace.new }
    {
        let lines = self.lines.as_mut_slice();
        let mut on = on_line(l, trace);
        lines[usize::from(l)].typed(b, &mut on)
    }

    /// Shows bytes on a line, and says how many were taken.
    pub fn write<T: Trace>(&mut self, l: u8, bytes: &[u8], trace: &mut T) -> u16
        requires there { l < length self.old }
        requires few { length bytes.now ≤ 65535 }
        ensures taken { result ≡ written (terminal_at self.old l) bytes.now }
        ensures answer { Wrote result ≡ (comes (Write bytes.now) (terminal_at self.old l)).answer }
        ensures line { self.new ≡ with_terminal self.old l (comes (Write bytes.now) (terminal_at self.old l)).terminal }
        ensures items { items.Took (T.taken trace.old) (sent l (comes (Write bytes.now) (terminal_at self.old l)).shown)
            (T.taken trace.new) }
        ensures frame { T.leads_to trace.old trace.new }
    {
        let lines = self.lines.as_mut_slice();
        let mut on = on_line(l, trace);
        lines[usize::from(l)].write(bytes, &mut on)
    }
}
