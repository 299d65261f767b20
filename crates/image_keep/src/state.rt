//! The process that executes instructions: what stays fixed of it, words of its memory, and its registers, at the front of its
//! u area.
ghost use Rattle.std.specs.Prelude.{◌≡◌, ◌<◌, ◌↔◌, [], ◌∷◌, IsTrue};
ghost use Rattle.fs_codec.specs.Bytes.{bytes_of};
ghost use Rattle.image_keep.specs.Kept.{HasImage, IsKept, image_of};
ghost use Rattle.image_keep.specs.Running.{IsFixed, state_bytes, word_or, words_or};

use crate::images::Images;
use crate::memory::see_bytes;
use crate::running::Fixed;
use crate::standing::{Standing, instruction_word, program_words};
use fs_codec::{put_word, put_words};
use u_area::{PS, REGISTERS, UMODE};
use v6_base::Slot;

/// The bytes of the registers and of the processor status word.
pub(crate) const STATE_SIZE: usize = 18;

/// Where PC stands, the last of the registers, in front of the processor status word.
pub(crate) const PC: usize = PS - 2;

/// The bytes of two words.
#[inline(always)]
#[tactic(auto, unfolding(fs_codec::specs::Bytes::bytes_of))]
pub(crate) fn two_words(first: u16, second: u16) -> [u8; 4]
    ensures { result ≡ bytes_of (first ∷ second ∷ []) }
{
    [
        (first % 256) as u8,
        (first / 256) as u8,
        (second % 256) as u8,
        (second / 256) as u8,
    ]
}

/// The bytes with which a u area begins.
#[inline(always)]
pub(crate) fn state_bytes(r: &[u16; 8], cc: u8) -> [u8; STATE_SIZE]
    requires { cc < 16 }
    ensures { result ≡ state_bytes r.now cc }
{
    let mut bytes = [0; STATE_SIZE];
    put_words(&mut bytes, REGISTERS, r);
    put_word(&mut bytes, PS, UMODE + u16::from(cc));
    see_bytes(&bytes);
    bytes
}

impl Images {
    /// What is kept has its form. Nothing is read.
    #[inline(always)]
    pub fn see_kept(&self)
        ensures { IsKept self.now.kept }
    {
        self.memory.see_bytes();
    }

    /// What stays fixed of a process in a slot, which has an image.
    pub fn fixed(&self, s: Slot) -> Fixed
        requires { HasImage self.now.kept s }
        ensures fixed { IsFixed self.now.kept result }
        ensures slot { result.slot ≡ s }
    {
        let starts = self.starts(s);
        let standing = Standing::of(&starts);
        Fixed {
            slot: s,
            index: s as usize,
            starts,
            standing,
            again: standing,
        }
    }

    /// Whether this is what stays fixed of the process in a slot still: it stands where it stood, and its parts are as long.
    #[inline(always)]
    pub fn is_fixed(&self, fixed: &Fixed, s: Slot) -> bool
        requires { HasImage self.now.kept s }
        ensures { IsTrue result ↔ (fixed.now.slot ≡ s) × IsFixed self.now.kept fixed.now }
    {
        fixed.slot == s && fixed.starts == self.starts(s)
    }

    /// A word of the process of which this is fixed, or another one where that can't be read: its address is odd, or in none of
    /// the parts. It is looked for first where instructions are read from in core.
    #[inline(always)]
    pub fn word_or(&self, fixed: &Fixed, at: u16, other: u16) -> u16
        requires { IsFixed self.now.kept fixed.now }
        ensures { result ≡ word_or (image_of self.now.kept fixed.now.slot) at other }
    {
        self.memory.see_bytes();
        match instruction_word(self.memory.core_bytes(), &fixed.standing, usize::from(at)) {
            Some(word) => word as u16,
            None => self.any_word_or(fixed, at, other),
        }
    }

    // The same wherever it is.
    #[cold]
    #[inline(never)]
    fn any_word_or(&self, fixed: &Fixed, at: u16, other: u16) -> u16
        requires { IsFixed self.now.kept fixed.now }
        ensures { result ≡ word_or (image_of self.now.kept fixed.now.slot) at other }
    {
        match self.load_word(fixed.index, &fixed.starts, at) {
            Ok(word) => word,
            Err(_) => other,
        }
    }

    /// Four words of the process of which this is fixed, one after another, each as `word_or` gives it.
    #[inline(always)]
    pub fn words_or(&self, fixed: &Fixed, at: u16, other: u16) -> [u16; 4]
        requires { IsFixed self.now.kept fixed.now }
        ensures { result ≡ words_or (image_of self.now.kept fixed.now.slot) at other }
    {
        self.memory.see_bytes();
        match program_words(self.memory.core_bytes(), &fixed.standing, usize::from(at)) {
            Some(words) => words,
            None => self.any_words_or(fixed, at, other),
        }
    }

    // The same wherever they are.
    #[cold]
    #[inline(never)]
    fn any_words_or(&self, fixed: &Fixed, at: u16, other: u16) -> [u16; 4]
        requires { IsFixed self.now.kept fixed.now }
        ensures { result ≡ words_or (image_of self.now.kept fixed.now.slot) at other }
    {
        [
            self.any_word_or(fixed, at, other),
            self.any_word_or(fixed, at.wrapping_add(2), other),
            self.any_word_or(fixed, at.wrapping_add(4), other),
            self.any_word_or(fixed, at.wrapping_add(6), other),
        ]
    }
}
