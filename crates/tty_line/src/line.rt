//! A terminal's line.
ghost use Rattle.std.specs.Prelude.{◌≡◌, ◌≤◌, take, drop, length};
ghost use Rattle.v6_base.specs.Trace as items;
ghost use Rattle.v6_base.specs.Trace.{sent};
ghost use Rattle.tty_line.specs.Terminal.{first_terminal, opened};
ghost use Rattle.tty_line.specs.Said.{holds, flush, closed, with_modes, sends, paced};
ghost use Rattle.tty_line.specs.Output.{shows, after_shown, written};
ghost use Rattle.tty_line.specs.Input.{typed};
ghost use Rattle.tty_line.specs.Reading.{reads};
ghost use Rattle.tty_line.specs.Shape.{most_waiting};

use crate::flags::{CRMOD, ECHO, LCASE, XTABS};
use crate::input::key_of;
use crate::output;
use crate::queue::Queue;
use arrayvec::ArrayVec;
use std::marker::Model;
use v6_base::{Space, Trace};

/// The most keys that wait to be read. With so many, one more is lost, and they with it.
pub(crate) const MOST_RAW: usize = 256;

/// How many keys there is room for: a delimiter may stand after the last one.
pub(crate) const RAW_ROOM: usize = 257;

/// With more bytes than so many that wait to go out, one more is written only later: `tty.h` in Lions' Commentary.
pub(crate) const TTHIWAT: usize = 50;

/// With so many bytes left that wait to go out, and with none, who waits to write is woken.
pub(crate) const TTLOWAT: usize = 30;

/// With more bytes than so many that wait to go out, a key isn't shown.
pub(crate) const MOST_ECHOED: usize = 1000;

/// The most bytes of a line.
pub(crate) const MOST_CANONICAL: usize = 254;

/// The characters of a line that is opened: `#` erases, and `@` kills.
const FIRST_CHARACTERS: u16 = b'#' as u16 + 256 * b'@' as u16;

/// The flags of a line that is opened.
const FIRST_FLAGS: u16 = XTABS + LCASE + ECHO + CRMOD;

/// What a key comes to, for the kernel.
#[derive(Clone, Copy, Debug, PartialEq, Eq)]
pub enum Keyed {
    /// It waits to be read, or is lost.
    Nothing,
    /// It ends a line: who waits for keys is to be woken.
    Ready,
    /// There was no room for it, and all that was typed is lost: who waits for keys is to be woken, and with `show` who waits
    /// for room, since bytes that waited to go out are lost too.
    Flushed { show: bool },
    /// It makes this signal, 2 or 3, for those who have the terminal, and all that was typed is lost: who waits for keys is
    /// to be woken then, and with `show` who waits for room.
    Signal { sig: u8, show: bool },
}

/// What a read comes to.
#[derive(Clone, Copy, Debug, PartialEq, Eq)]
pub enum Took {
    /// So many bytes were read.
    Done(u16),
    /// There is no line to read yet.
    Wait,
    /// An address can't be written. The byte for it is lost.
    Fault,
}

/// A terminal's line: `struct tty` of `tty.h` in Lions' Commentary.
#[derive(Drop)]
pub struct Line {
    pub(crate) raw: ArrayVec<u8, RAW_ROOM>,
    pub(crate) canonical: ArrayVec<u8, MOST_CANONICAL>,
    pub(crate) output: Queue,
    pub(crate) delimiters: u16,
    pub(crate) column: u8,
    pub(crate) modes: [u16; 3],
    pub(crate) is_open: bool,
    pub(crate) is_paced: bool,
}

impl Model for Line {
    ghost use Rattle.std.specs.Prelude.{◌≤◌, length};
    ghost use Rattle.tty_line.specs.Terminal.{Terminal};
    ghost use Rattle.tty_line.specs.Shape.{IsLine, most_waiting};

    ghost Value = { Terminal };

    ghost view = { λ l. record {
      raw = l.raw.items;
      canonical = l.canonical.items;
      output = l.output;
      delimiters = l.delimiters;
      column = l.column;
      modes = l.modes;
      is_open = l.is_open;
      is_paced = l.is_paced;
    } };

    ghost invariant = { λ l. IsLine l.raw.items l.canonical.items l.delimiters × (length l.output ≤ most_waiting) };
}

impl Default for Line {
    fn default() -> Line {
        Line::new()
    }
}

/// Takes so many bytes off the front.
pub(crate) fn drop_front<const ROOM: usize>(bytes: &mut ArrayVec<u8, ROOM>, count: usize)
    requires { count ≤ length bytes.old.items }
    ensures { bytes.new.items ≡ drop count bytes.old.items }
{
    bytes.drain(..count);
}

impl Line {
    /// A line that nobody has opened yet.
    pub fn new() -> Line
        ensures { result ≡ first_terminal }
    {
        Line {
            raw: ArrayVec::new(),
            canonical: ArrayVec::new(),
            output: Queue::new(),
            delimiters: 0,
            column: 0,
            modes: [0; 3],
            is_open: false,
            is_paced: false,
        }
    }

    /// Whether the line is open.
    pub fn is_open(&self) -> bool
        ensures { result ≡ self.now.is_open }
    {
        self.is_open
    }

    /// Whether bytes wait to go out.
    pub fn holds(&self) -> bool
        ensures { result ≡ holds self.now }
    {
        self.output.len() > 0
    }

    /// Opens the line. Where it isn't open yet, its flags become those of a typewriter with capitals alone, `#` erases
    /// and `@` kills. Lions' Commentary, `klopen` in `kl.c`.
    pub fn opened(&mut self)
        ensures { self.new ≡ opened self.old }
    {
        if !self.is_open {
            self.modes = [self.modes[0], FIRST_CHARACTERS, FIRST_FLAGS];
            self.is_open = true;
        }
    }

    /// Closes the line. The bytes that wait go out, and what was typed is lost. The answer says whether bytes waited: then
    /// who waits for room is to be woken, after who waits for keys. Lions' Commentary, `klclose` in `kl.c`.
    pub fn closed<T: Trace>(&mut self, trace: &mut T) -> bool
        ensures line { self.new ≡ (closed self.old).terminal }
        ensures show { result ≡ (closed self.old).show }
        ensures items { items.Took (T.taken trace.old) (sent 0 (closed self.old).shown) (T.taken trace.new) }
        ensures frame { T.leads_to trace.old trace.new }
    {
        output::send_all(self.output.as_slice(), trace);
        self.is_open = false;
        self.flush()
    }

    /// Loses all that was typed and the bytes that wait to go out: `flushtty`. The answer says whether bytes waited.
    pub fn flush(&mut self) -> bool
        ensures line { self.new ≡ (flush self.old).terminal }
        ensures show { result ≡ (flush self.old).show }
    {
        let held = self.output.len() > 0;
        self.raw.clear();
        self.canonical.clear();
        self.output.clear();
        self.delimiters = 0;
        held
    }

    /// Sends the first of the bytes that wait, if there is one. The answer says whether who waits for room is to be woken:
    /// none or 30 are left.
    pub fn send<T: Trace>(&mut self, trace: &mut T) -> bool
        ensures line { self.new ≡ (sends self.old).terminal }
        ensures show { result ≡ (sends self.old).show }
        ensures items { items.Took (T.taken trace.old) (sent 0 (sends self.old).shown) (T.taken trace.new) }
        ensures frame { T.leads_to trace.old trace.new }
    {
        if self.output.len() == 0 {
            return false;
        }
        trace.out(self.output.pop());
        let left = self.output.len();
        left == 0 || left == TTLOWAT
    }

    /// Turns the pace on, with which bytes wait to be sent, or off. Where it is turned off, those that wait go out, and the
    /// answer says whether there were any.
    pub fn set_pace<T: Trace>(&mut self, on: bool, trace: &mut T) -> bool
        ensures line { self.new ≡ (paced self.old on).terminal }
        ensures show { result ≡ (paced self.old on).show }
        ensures items { items.Took (T.taken trace.old) (sent 0 (paced self.old on).shown) (T.taken trace.new) }
        ensures frame { T.leads_to trace.old trace.new }
    {
        self.is_paced = on;
        if on {
            return false;
        }
        let held = self.output.len() > 0;
        output::send_all(self.output.as_slice(), trace);
        self.output.clear();
        held
    }

    /// Takes a byte that is typed, whose low seven bits are a key, and shows it where the flags say so. Lions'
    /// Commentary, `ttyinput` in `tty.c`; tty(IV) of the manual.
    pub fn typed<T: Trace>(&mut self, b: u8, trace: &mut T) -> Keyed
        ensures line { self.new ≡ (typed self.old b).terminal }
        ensures keyed { result ≡ (typed self.old b).keyed }
        ensures most { length self.new.output ≤ most_waiting }
        ensures items { items.Took (T.taken trace.old) (sent 0 (typed self.old b).shown) (T.taken trace.new) }
        ensures frame { T.leads_to trace.old trace.new }
    {
        if !self.is_open {
            return Keyed::Nothing;
        }
        self.key(key_of(self.modes[2], b), trace)
    }

    /// Reads up to so many bytes of a line into a memory, from an address on. A count of 0 makes the line and reads
    /// nothing of it. Lions' Commentary, `ttread` and `canon` in `tty.c`; tty(IV) of the manual.
    pub fn read<S: Space>(&mut self, space: &mut S, at: u16, count: u16) -> Took
        ensures line { self.new ≡ (reads self.old (S.image space.old) at count).terminal }
        ensures image { S.image space.new ≡ (reads self.old (S.image space.old) at count).image }
        ensures took { result ≡ (reads self.old (S.image space.old) at count).took }
        ensures memory { S.rest space.new ≡ S.rest space.old }
    {
        if self.canonical.is_empty() {
            if self.delimiters == 0 {
                return Took::Wait;
            }
            self.make_line();
        }
        self.hand_out(space, at, count)
    }

    /// Shows bytes, one after another, and says how many were taken: fewer than all where the line is paced and too many wait
    /// to go out. Lions' Commentary, `ttwrite` and `ttyoutput` in `tty.c`; tty(IV) of the manual.
    pub fn write<T: Trace>(&mut self, bytes: &[u8], trace: &mut T) -> u16
        requires { length bytes.now ≤ 65535 }
        ensures taken { result ≡ written self.old bytes.now }
        ensures line { self.new ≡ after_shown self.old (take result bytes.now) }
        ensures most { length self.new.output ≤ most_waiting }
        ensures items { items.Took (T.taken trace.old) (sent 0 (shows self.old (take result bytes.now))) (T.taken trace.new) }
        ensures frame { T.leads_to trace.old trace.new }
    {
        if self.is_paced {
            return self.let_wait(bytes);
        }
        self.column = output::show_all(self.modes[2], self.column, bytes, trace);
        bytes.len() as u16
    }

    /// The modes of the line, which are three words: the speeds; the character that erases, in the low byte, and the
    /// one that kills; the flags. gtty(II) of the manual.
    pub fn modes(&self) -> [u16; 3]
        ensures { result ≡ self.now.modes }
    {
        self.modes
    }

    /// Sets the modes of the line. The bytes that wait go out, and what was typed is lost. The answer says whether bytes
    /// waited. stty(II) of the manual.
    pub fn set_modes<T: Trace>(&mut self, v: [u16; 3], trace: &mut T) -> bool
        ensures line { self.new ≡ (with_modes self.old v).terminal }
        ensures show { result ≡ (with_modes self.old v).show }
        ensures items { items.Took (T.taken trace.old) (sent 0 (with_modes self.old v).shown) (T.taken trace.new) }
        ensures frame { T.leads_to trace.old trace.new }
    {
        output::send_all(self.output.as_slice(), trace);
        self.modes = v;
        self.flush()
    }
}
