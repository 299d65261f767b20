//! Single fields of a u area, read where its bytes stand.
ghost use Rattle.std.specs.Prelude.{◌≡◌, ◌<◌, [], ◌∷◌, length, slice_index};
ghost use Rattle.fs_codec.specs.Bytes.{bytes_of};
ghost use Rattle.u_area.specs.Area.{fetched, times, IsStored};

use crate::arrays::{eight_words, fifteen_bytes, twelve_bytes};
use crate::layout::{CALL, DIRECTORY, FILES, HANDLERS, IDS, PENDING, PS, REGISTERS, SIZES, TIMES};
use fs_codec::{long_at, word_at};

/// A register: R0 to R6, and the PC as 7.
#[inline(always)]
#[tactic(auto, using(crate::proofs::ReadLemmas::nths), unfolding(crate::specs::Area::fetched))]
pub fn register(b: &[u8], n: usize) -> u16
    requires size { length b.now ≡ 1024 }
    requires number { n < 8 }
    ensures { result ≡ slice_index (fetched b.now).r n }
{
    word_at(b, REGISTERS + 2 * n)
}

/// All registers.
#[inline(always)]
#[tactic(auto, unfolding(crate::specs::Area::fetched))]
pub fn registers(b: &[u8]) -> [u16; 8]
    requires { length b.now ≡ 1024 }
    ensures { result ≡ (fetched b.now).r }
{
    eight_words(b, REGISTERS)
}

/// The condition codes.
#[inline(always)]
#[tactic(auto, unfolding(crate::specs::Area::fetched))]
pub fn codes(b: &[u8]) -> u8
    requires { length b.now ≡ 1024 }
    ensures { result ≡ (fetched b.now).cc }
{
    (word_at(b, PS) % 16) as u8
}

/// The effective user and group, and the real ones.
#[inline(always)]
#[tactic(auto, unfolding(crate::specs::Area::fetched))]
pub fn ids(b: &[u8]) -> [u8; 4]
    requires { length b.now ≡ 1024 }
    ensures { result ≡ (fetched b.now).uid ∷ (fetched b.now).gid ∷ (fetched b.now).ruid ∷ (fetched b.now).rgid ∷ [] }
{
    [b[IDS], b[IDS + 1], b[IDS + 2], b[IDS + 3]]
}

/// The inode number of the current directory.
#[inline(always)]
#[tactic(auto, unfolding(crate::specs::Area::fetched))]
pub fn directory(b: &[u8]) -> u16
    requires { length b.now ≡ 1024 }
    ensures { result ≡ (fetched b.now).dir }
{
    word_at(b, DIRECTORY)
}

/// The clicks of text, data and stack.
#[inline(always)]
#[tactic(auto, unfolding(crate::specs::Area::fetched))]
pub fn sizes(b: &[u8]) -> [u16; 3]
    requires { length b.now ≡ 1024 }
    ensures { result ≡ (fetched b.now).text_size ∷ (fetched b.now).data_size ∷ (fetched b.now).stack_size ∷ [] }
{
    [
        word_at(b, SIZES),
        word_at(b, SIZES + 2),
        word_at(b, SIZES + 4),
    ]
}

/// Which call is pending.
#[inline(always)]
#[tactic(auto, unfolding(crate::specs::Area::fetched))]
pub fn pending_call(b: &[u8]) -> u8
    requires { length b.now ≡ 1024 }
    ensures { result ≡ (fetched b.now).pending }
{
    b[PENDING]
}

/// What is kept of the pending call.
#[inline(always)]
#[tactic(auto, unfolding(crate::specs::Area::fetched))]
pub fn call_words(b: &[u8]) -> [u16; 8]
    requires { length b.now ≡ 1024 }
    ensures { result ≡ (fetched b.now).call }
{
    eight_words(b, CALL)
}

/// What a signal does, by its number.
#[inline(always)]
#[tactic(auto, using(crate::proofs::ReadLemmas::nths), unfolding(crate::specs::Area::fetched))]
pub fn handler(b: &[u8], sig: usize) -> u16
    requires size { length b.now ≡ 1024 }
    requires number { sig < 20 }
    ensures { result ≡ slice_index (fetched b.now).handlers sig }
{
    word_at(b, HANDLERS + 2 * sig)
}

/// The open files.
#[inline(always)]
#[tactic(auto, unfolding(crate::specs::Area::fetched))]
pub fn files(b: &[u8]) -> [u8; 15]
    requires { length b.now ≡ 1024 }
    ensures { result ≡ (fetched b.now).files }
{
    fifteen_bytes(b, FILES)
}

/// The ticks of the process itself, in user mode and in the kernel.
#[inline(always)]
#[tactic(auto, unfolding(crate::specs::Area::fetched))]
pub fn own_times(b: &[u8]) -> [u16; 2]
    requires { length b.now ≡ 1024 }
    ensures { result ≡ (fetched b.now).user_time ∷ (fetched b.now).system_time ∷ [] }
{
    [word_at(b, TIMES), word_at(b, TIMES + 2)]
}

/// The bytes in which all times stand: those of the process, and of its children, each of these with its high word first.
#[inline(always)]
pub fn time_bytes(b: &[u8]) -> [u8; 12]
    requires size { length b.now ≡ 1024 }
    requires stored { IsStored b.now }
    ensures { result ≡ bytes_of (times (fetched b.now)) }
{
    twelve_bytes(b, TIMES)
}

/// Those of its children that were waited for.
#[inline(always)]
#[tactic(auto, unfolding(crate::specs::Area::fetched))]
pub fn child_times(b: &[u8]) -> [u32; 2]
    requires { length b.now ≡ 1024 }
    ensures { result ≡ (fetched b.now).child_user ∷ (fetched b.now).child_system ∷ [] }
{
    [long_at(b, TIMES + 4), long_at(b, TIMES + 8)]
}
