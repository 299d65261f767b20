//! Words among bytes.
ghost use Rattle.std.specs.Prelude.{◌≡◌, ◌+◌, ◌*◌, ◌<◌, ◌≤◌, length, slice_index};
ghost use Rattle.fs_codec.specs.Words.{word, long, words, SameOutside};

use byteorder::{ByteOrder, LittleEndian};

/// The word at a place, its low byte first.
pub fn word_at(b: &[u8], at: usize) -> u16
    requires { at + 2 ≤ length b.now }
    ensures { result ≡ word b.now at }
{
    LittleEndian::read_u16(&b[at..at + 2])
}

/// Puts a word to a place, and leaves the other bytes.
pub fn put_word(b: &mut [u8], at: usize, w: u16)
    requires { at + 2 ≤ length b.old }
    ensures here { word b.new at ≡ w }
    ensures others { SameOutside at 2 b.old b.new }
{
    LittleEndian::write_u16(&mut b[at..at + 2], w);
}

/// Puts a byte to a place, and leaves the others.
pub fn put_byte(b: &mut [u8], at: usize, x: u8)
    requires { at < length b.old }
    ensures here { slice_index b.new at ≡ x }
    ensures others { SameOutside at 1 b.old b.new }
{
    b[at] = x;
}

/// The number of two words at a place, the high word first.
pub fn long_at(b: &[u8], at: usize) -> u32
    requires { at + 4 ≤ length b.now }
    ensures { result ≡ long b.now at }
{
    65536 * u32::from(word_at(b, at)) + u32::from(word_at(b, at + 2))
}

/// Puts a number of two words to a place, the high word first, and leaves the other bytes.
pub fn put_long(b: &mut [u8], at: usize, x: u32)
    requires { at + 4 ≤ length b.old }
    ensures here { long b.new at ≡ x }
    ensures others { SameOutside at 4 b.old b.new }
{
    put_word(b, at, (x / 65536) as u16);
    put_word(b, at + 2, (x % 65536) as u16);
}

/// Fills `into` with the words from a place on.
pub fn read_words(b: &[u8], at: usize, into: &mut [u16])
    requires { at + 2 * length into.old ≤ length b.now }
    ensures { into.new ≡ words b.now at (length into.old) }
{
    for i in 0..into.len() {
        into[i] = word_at(b, at + 2 * i);
    }
}

/// Puts words to a place, one after the other, and leaves the other bytes.
pub fn put_words(b: &mut [u8], at: usize, from: &[u16])
    requires { at + 2 * length from.now ≤ length b.old }
    ensures here { words b.new at (length from.now) ≡ from.now }
    ensures others { SameOutside at (2 * length from.now) b.old b.new }
{
    for i in 0..from.len() {
        put_word(b, at + 2 * i, from[i]);
    }
}
