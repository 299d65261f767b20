// Room in memory for what is written.
ghost use Rattle.std.specs.Prelude.{◌≡◌, ◌+◌, ◌<◌, ◌≤◌, ◌++◌, [], length, min, take, vec_len, vec_capacity, OnOk, OnErr};
ghost use Rattle.std.specs.Option.{ForSome};
ghost use Rattle.v6_port.specs.Calls.{at_most};

use std::alloc::{AllocError, Global};

/// What was written, and for how many bytes more there is room.
#[derive(Drop)]
pub(crate) struct Room {
    pub(crate) free: usize,
    pub(crate) bytes: Vec<u8>,
    ghost taken: { vec_len bytes + free ≤ vec_capacity bytes },
}

impl Room {
    pub(crate) fn new(alloc: Global) -> Self
        ensures free { result.free ≡ 0 }
        ensures bytes { result.bytes.items ≡ [] }
    {
        Room {
            free: 0,
            bytes: Vec::new(alloc),
        }
    }

    /// Takes room for so many bytes more.
    pub(crate) fn grow(&mut self, more: usize) -> Result<(), AllocError>
        ensures ok { OnOk result (self.new.free ≡ self.old.free + more) }
        ensures err { OnErr result (self.new.free ≡ self.old.free) }
        ensures bytes { self.new.bytes.items ≡ self.old.bytes.items }
    {
        let free = self.free.checked_add(more).ok_or(AllocError)?;
        self.bytes.reserve_exact(free)?;
        self.free = free;
        Ok(())
    }

    /// Appends as many of the first bytes as there is room for and as go in one call, and says how many.
    pub(crate) fn append(&mut self, piece: &[u8], chunk: Option<u32>) -> usize
        ensures count { result ≡ at_most chunk (min (length piece.now) self.old.free) }
        ensures part { result ≤ length piece.now }
        ensures some { ForSome chunk (λ n. 0 < n) → 0 < length piece.now → 0 < self.old.free → 0 < result }
        ensures bytes { self.new.bytes.items ≡ self.old.bytes.items ++ take result piece.now }
        ensures free { self.new.free + result ≡ self.old.free }
    {
        let count = at_most(chunk, piece.len().min(self.free));
        let Ok(()) = self.bytes.extend_from_slice(&piece[..count]) else {
            unreachable!()
        };
        self.free -= count;
        count
    }
}

/// Of so many bytes those that go in one call, where the most that go is limited.
pub(crate) fn at_most(chunk: Option<u32>, count: usize) -> usize
    ensures is { result ≡ at_most chunk count }
    ensures part { result ≤ count }
    ensures some { ForSome chunk (λ n. 0 < n) → 0 < count → 0 < result }
{
    match chunk {
        Some(most) => count.min(most as usize),
        None => count,
    }
}
