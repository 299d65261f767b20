//! The bytes that wait to go out.
ghost use Rattle.std.specs.Prelude.{◌≡◌, ◌≤◌, ◌<◌, ◌++◌, [], length, drop, slice_index};
ghost use Rattle.tty_line.specs.Output.{shown_byte, column_after_all};
ghost use Rattle.tty_line.specs.Queue.{with_waiting};
ghost use Rattle.tty_line.specs.Shape.{most_waiting};

use crate::output;
use arrayvec::ArrayVec;
use std::marker::Model;
use v6_base::{Entry, Trace};

/// For how many bytes there is room: one more than ever wait. With 1,000 of them one more is formed, which becomes eight at
/// most.
pub(crate) const QUEUE_ROOM: usize = 1009;

/// The bytes of a line that wait to go out: `t_outq` of `tty.h` in Lions' Commentary. What forms bytes sends them to a trace,
/// so this is one: of line 0 alone, and of no entries.
#[derive(Drop)]
pub(crate) struct Queue {
    /// Those that wait, behind some that have gone out.
    bytes: ArrayVec<u8, QUEUE_ROOM>,
    /// How many of them have gone out.
    gone: usize,
}

impl Model for Queue {
    ghost use Rattle.std.specs.Prelude.{ℕ, List, drop, length, ◌≤◌};

    ghost Value = { List ℕ };

    ghost view = { λ q. drop q.gone q.bytes.items };

    ghost invariant = { λ q. q.gone ≤ length q.bytes.items };
}

/// Takes out those that have gone, where there is no room behind them, and gives how many of them are still there.
#[inline]
fn make_room(bytes: &mut ArrayVec<u8, QUEUE_ROOM>, gone: usize) -> usize
    requires { gone ≤ length bytes.old.items }
    ensures waiting { drop result bytes.new.items ≡ drop gone bytes.old.items }
    ensures within { result ≤ length bytes.new.items }
    ensures room { QUEUE_ROOM ≤ length bytes.new.items → result ≡ 0 }
{
    if bytes.len() == QUEUE_ROOM {
        bytes.drain(..gone);
        return 0;
    }
    gone
}

impl Queue {
    /// None yet.
    pub(crate) fn new() -> Queue
        ensures { result ≡ [] }
    {
        Queue {
            bytes: ArrayVec::new(),
            gone: 0,
        }
    }

    pub(crate) fn len(&self) -> usize
        ensures { result ≡ length self.now }
    {
        self.bytes.len() - self.gone
    }

    /// All of them, in order.
    pub(crate) fn as_slice(&self) -> &[u8]
        ensures { result.now ≡ self.now }
    {
        &self.bytes.as_slice()[self.gone..]
    }

    /// None any more.
    pub(crate) fn clear(&mut self)
        ensures { self.new ≡ [] }
    {
        self.bytes.clear();
        self.gone = 0;
    }

    /// Takes the first of them out.
    pub(crate) fn pop(&mut self) -> u8
        requires { 0 < length self.old }
        ensures first { result ≡ slice_index self.old 0 }
        ensures rest { self.new ≡ drop 1 self.old }
    {
        let byte = self.bytes[self.gone];
        self.gone += 1;
        byte
    }

    /// One more waits, where there is room for it.
    fn push(&mut self, byte: u8)
        ensures { self.new ≡ with_waiting self.old byte }
    {
        self.gone = make_room(&mut self.bytes, self.gone);
        let _ = self.bytes.try_push(byte);
    }

    /// Lets the forms of one byte wait, and gives the column after them.
    pub(crate) fn show(&mut self, flags: u16, column: u8, byte: u8) -> u8
        requires room { length self.old ≤ 1000 }
        ensures column { result ≡ column_after_all column (shown_byte flags column byte) }
        ensures queue { self.new ≡ self.old ++ shown_byte flags column byte }
        ensures most { length self.new ≤ most_waiting }
    {
        output::show(flags, column, byte, self)
    }
}

impl Trace for Queue {
    ghost use Rattle.tty_line.specs.Queue.{waiting};

    ghost taken = { λ q. waiting q };

    ghost leads_to = { λ a b. Unit {0} };

    ghost stays = { λ q. tt };

    ghost goes_on = { λ a b c first second. tt };

    fn entry(&mut self, _e: Entry) {}

    fn out_on(&mut self, line: u8, byte: u8) {
        if line == 0 {
            self.push(byte);
        }
    }
}
