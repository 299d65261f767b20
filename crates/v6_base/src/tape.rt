//! A trace in memory.
ghost use Rattle.std.specs.Prelude.{◌≡◌, ◌↔◌, ◌<◌, IfOk, IsTrue, length};
ghost use Rattle.v6_base.specs.Trace.{Byte, Log};
ghost use Rattle.v6_base.specs.Tape.{blank, bytes_of, is_full, IsSilent, recorded};

use crate::entry::Entry;
use crate::line_bytes::{LineBytes, clear_all, push_at};
use crate::trace::{LINES, Trace};
use std::alloc::{AllocError, Global};
use std::marker::Model;

/// A trace in memory, with room for so many lines of the log and so many bytes of the terminal lines together. It tells all, and
/// is cut exactly where one of its two rooms is full.
#[derive(Drop)]
pub struct Tape {
    entries: Vec<Entry>,
    lines: [LineBytes; LINES as usize],
    /// How many more bytes there is room for: none where the other room is full, so that one test says whether the tape is cut.
    left: usize,
    byte_room: usize,
}

impl Model for Tape {
    ghost use Rattle.std.specs.Prelude.{length, vec_capacity};
    ghost use Rattle.v6_base.specs.Tape.{Recording};
    ghost use Rattle.v6_base.specs.LineBytes.{HaveRoom, all_bytes};

    ghost Value = { Recording };

    ghost view = { λ t. record {
      entries = t.entries.items;
      lines = all_bytes t.lines;
      entry_room = vec_capacity t.entries;
      byte_room = t.byte_room;
    } };

    ghost invariant = { λ t. HaveRoom t.lines (length t.entries.items) (vec_capacity t.entries) t.left t.byte_room };
}

impl Tape {
    /// A tape of which nothing is taken, with room for so many entries and bytes. All the memory that it will ever use is
    /// taken here.
    pub fn new(alloc: Global, entries: usize, bytes: usize) -> Result<Tape, AllocError>
        requires entries { 0 < entries }
        requires bytes { 0 < bytes }
        ensures { IfOk result (λ tape. tape ≡ blank entries bytes) }
    {
        let entries = Vec::with_capacity(alloc, entries)?;
        let lines = [
            LineBytes::new(alloc, bytes)?,
            LineBytes::new(alloc, bytes)?,
            LineBytes::new(alloc, bytes)?,
            LineBytes::new(alloc, bytes)?,
            LineBytes::new(alloc, bytes)?,
            LineBytes::new(alloc, bytes)?,
            LineBytes::new(alloc, bytes)?,
            LineBytes::new(alloc, bytes)?,
        ];
        Ok(Tape {
            entries,
            lines,
            left: bytes,
            byte_room: bytes,
        })
    }

    /// The lines of the log, in order.
    pub fn entries(&self) -> &[Entry]
        ensures { result.now ≡ self.now.entries }
    {
        self.entries.as_slice()
    }

    /// The bytes that went out on line 0, in order.
    pub fn bytes(&self) -> &[u8]
        ensures { result.now ≡ bytes_of self.now 0 }
    {
        self.bytes_on(0)
    }

    /// The bytes that went out on a terminal line, in order.
    pub fn bytes_on(&self, line: u8) -> &[u8]
        requires { line < LINES }
        ensures { result.now ≡ bytes_of self.now line }
    {
        self.lines[usize::from(line)].as_slice()
    }

    /// Whether no byte has gone out on any line, where the tape isn't cut; one test tells both.
    pub fn is_silent(&self) -> bool
        ensures { IsTrue result ↔ IsSilent self.now }
    {
        self.left == self.byte_room
    }

    /// Makes the tape empty, so that it isn't cut any more.
    #[tactic(auto, using(crate::proofs::LineBytesLemmas::clears))]
    pub fn clear(&mut self)
        ensures { self.new ≡ blank self.old.entry_room self.old.byte_room }
    {
        self.entries.clear();
        if self.left < self.byte_room {
            clear_all(&mut self.lines);
            self.left = self.byte_room;
        }
    }

    /// Whether one of the two rooms is full.
    fn is_cut(&self) -> bool
        ensures { result ≡ is_full self.now }
    {
        self.left == 0
    }

    fn put_entry(&mut self, entry: Entry)
        ensures { self.new ≡ recorded self.old (Log entry) }
    {
        if self.is_cut() {
            return;
        }
        self.entries.push_reserved(entry);
        if self.entries.len() == self.entries.capacity() {
            self.left = 0;
        }
    }

    #[tactic(auto, using(crate::proofs::LineBytesLemmas::pushes))]
    fn put_byte(&mut self, line: u8, byte: u8)
        requires { line < LINES }
        ensures taken { self.new ≡ recorded self.old (Byte line byte) }
        ensures eight { length self.old.lines ≡ LINES }
    {
        if self.is_cut() {
            return;
        }
        push_at(&mut self.lines, usize::from(line), byte);
        self.left -= 1;
    }
}

impl Trace for Tape {
    ghost use Rattle.std.proofs.Common.{◌≡◌, refl, ◌∙◌};
    ghost use Rattle.v6_base.specs.Tape.{taken_on};

    ghost taken = { λ t. taken_on t };

    ghost leads_to = { λ a b. (b.entry_room ≡ a.entry_room) × (b.byte_room ≡ a.byte_room) };

    ghost stays = { λ t. (refl, refl) };

    ghost goes_on = { λ a b c first second. (second.0 ∙ first.0, second.1 ∙ first.1) };

    fn entry(&mut self, e: Entry) {
        self.put_entry(e);
    }

    fn out_on(&mut self, line: u8, byte: u8) {
        self.put_byte(line, byte);
    }
}
