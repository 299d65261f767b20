//! Words and bytes in a row, read at a place into an array, one by one: the compiler then reads each where it lies.
ghost use Rattle.std.specs.Prelude.{◌≡◌, ◌+◌, ◌≤◌, length, take, drop};
ghost use Rattle.fs_codec.specs.Words.{words};

use fs_codec::word_at;

/// Eight words.
#[inline(always)]
#[tactic(auto, unfolding(fs_codec::specs::Words::words))]
pub(crate) fn eight_words(b: &[u8], at: usize) -> [u16; 8]
    requires { at + 16 ≤ length b.now }
    ensures { result ≡ words b.now at 8 }
{
    [
        word_at(b, at + 0),
        word_at(b, at + 2),
        word_at(b, at + 4),
        word_at(b, at + 6),
        word_at(b, at + 8),
        word_at(b, at + 10),
        word_at(b, at + 12),
        word_at(b, at + 14),
    ]
}

/// Twenty words.
#[inline(always)]
#[tactic(auto, unfolding(fs_codec::specs::Words::words))]
pub(crate) fn twenty_words(b: &[u8], at: usize) -> [u16; 20]
    requires { at + 40 ≤ length b.now }
    ensures { result ≡ words b.now at 20 }
{
    [
        word_at(b, at + 0),
        word_at(b, at + 2),
        word_at(b, at + 4),
        word_at(b, at + 6),
        word_at(b, at + 8),
        word_at(b, at + 10),
        word_at(b, at + 12),
        word_at(b, at + 14),
        word_at(b, at + 16),
        word_at(b, at + 18),
        word_at(b, at + 20),
        word_at(b, at + 22),
        word_at(b, at + 24),
        word_at(b, at + 26),
        word_at(b, at + 28),
        word_at(b, at + 30),
        word_at(b, at + 32),
        word_at(b, at + 34),
        word_at(b, at + 36),
        word_at(b, at + 38),
    ]
}

/// Fifteen bytes.
#[inline(always)]
pub(crate) fn fifteen_bytes(b: &[u8], at: usize) -> [u8; 15]
    requires { at + 15 ≤ length b.now }
    ensures { result ≡ take 15 (drop at b.now) }
{
    [
        b[at + 0],
        b[at + 1],
        b[at + 2],
        b[at + 3],
        b[at + 4],
        b[at + 5],
        b[at + 6],
        b[at + 7],
        b[at + 8],
        b[at + 9],
        b[at + 10],
        b[at + 11],
        b[at + 12],
        b[at + 13],
        b[at + 14],
    ]
}

/// Twelve bytes.
#[inline(always)]
pub(crate) fn twelve_bytes(b: &[u8], at: usize) -> [u8; 12]
    requires { at + 12 ≤ length b.now }
    ensures { result ≡ take 12 (drop at b.now) }
{
    [
        b[at + 0],
        b[at + 1],
        b[at + 2],
        b[at + 3],
        b[at + 4],
        b[at + 5],
        b[at + 6],
        b[at + 7],
        b[at + 8],
        b[at + 9],
        b[at + 10],
        b[at + 11],
    ]
}
