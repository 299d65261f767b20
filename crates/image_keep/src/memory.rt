//! Core and the swap area, as one line of clicks.
ghost use Rattle.std.specs.Prelude.{◌≡◌, ◌⊎◌, ◌+◌, ◌*◌, ◌<◌, ◌≤◌, length, replicate, slice_index, slice_set, IfOk};
ghost use Rattle.v6_base.specs.Words.{word_set};
ghost use Rattle.core_mem.specs.Bytes.{part, over};
ghost use Rattle.v6_base.specs.Image.{AreBytes};
ghost use Rattle.image_keep.specs.Attempted.{IsAtHand, Attempted, Called};
ghost use Rattle.image_keep.specs.Line.{line_of};

use crate::attempt::{attempt, attempt_call};
use crate::standing::Standing;
use core_mem::Core;
use pdp_decode::Dispatch;
use std::alloc::{AllocError, Global};
use std::marker::Model;
use u_area::AREA_SIZE;

/// How many bytes the swap area has: those of the blocks from 4000 to 4871 of the disk that has the root.
pub const SWAP_BYTES: usize = 446_464;

/// The bytes of core, and those of the swap area. Clicks are numbered from 0 on, first those of core.
#[derive(Drop)]
pub(crate) struct Memory {
    core: Core,
    clicks: u16,
    swap: Vec<u8>,
}

impl Model for Memory {
    ghost use Rattle.image_keep.specs.Line.{Lists};

    ghost Value = { Lists };

    ghost use Rattle.image_keep.specs.LineInside.{lists_in, IsCut};

    ghost view = { lists_in };

    ghost invariant = { IsCut };
}

#[tactic(auto, unfolding(core_mem::specs::Bytes::over))]
fn write_out(core: &Core, from: u16, n: u16, swap: &mut [u8], at: usize)
    requires some { 0 < n }
    requires small { from + n ≤ 65535 }
    requires from { 64 * (from + n) ≤ length core.now }
    requires to { at + 64 * n ≤ length swap.old }
    ensures bytes { swap.new ≡ over swap.old at (part core.now (64 * from) (64 * n)) }
    ensures length { length swap.new ≡ length swap.old }
{
    core.to_swap(from + 1, n, &mut swap[at..at + 64 * usize::from(n)]);
}

#[tactic(auto, unfolding(core_mem::specs::Bytes::part))]
fn read_in(core: &mut Core, to: u16, n: u16, swap: &[u8], at: usize)
    requires some { 0 < n }
    requires small { to + n ≤ 65535 }
    requires to { 64 * (to + n) ≤ length core.old }
    requires from { at + 64 * n ≤ length swap.now }
    ensures bytes { core.new ≡ over core.old (64 * to) (part swap.now at (64 * n)) }
    ensures length { length core.new ≡ length core.old }
{
    core.from_swap(&swap[at..at + 64 * usize::from(n)], to + 1, n);
}

#[tactic(auto, unfolding(core_mem::specs::Bytes::over, core_mem::specs::Bytes::part))]
fn shift(all: &mut [u8], from: usize, to: usize, n: usize)
    requires from { from + n ≤ length all.old }
    requires to { to + n ≤ length all.old }
    ensures bytes { all.new ≡ over all.old to (part all.old from n) }
    ensures length { length all.new ≡ length all.old }
{
    all.copy_within(from..from + n, to);
}

#[tactic(auto, unfolding(core_mem::specs::Bytes::over))]
fn write(all: &mut [u8], at: usize, bytes: &[u8])
    requires { at + length bytes.now ≤ length all.old }
    ensures bytes { all.new ≡ over all.old at bytes.now }
    ensures length { length all.new ≡ length all.old }
{
    all[at..at + bytes.len()].copy_from_slice(bytes);
}

#[tactic(auto, unfolding(core_mem::specs::Bytes::over))]
fn fill(all: &mut [u8], at: usize, n: usize)
    requires { at + n ≤ length all.old }
    ensures bytes { all.new ≡ over all.old at (replicate n 0) }
    ensures length { length all.new ≡ length all.old }
{
    all[at..at + n].fill(0);
}

#[tactic(auto, unfolding(core_mem::specs::Bytes::part))]
fn read_out(all: &[u8], at: usize, n: usize, out: &mut [u8])
    requires inside { at + n ≤ length all.now }
    requires size { length out.old ≡ n }
    ensures { out.new ≡ part all.now at n }
{
    out.copy_from_slice(&all[at..at + n]);
}

/// The bytes of a u area from a place on.
#[inline(always)]
#[tactic(auto, unfolding(core_mem::specs::Bytes::part))]
fn area_in(all: &[u8], at: usize) -> &[u8]
    requires { at + 1024 ≤ length all.now }
    ensures { result.now ≡ part all.now at 1024 }
{
    &all[at..at + AREA_SIZE]
}

/// The word of two neighbours.
#[inline(always)]
pub(crate) fn word_in(all: &[u8], at: usize) -> u16
    requires { at + 2 ≤ length all.now }
    ensures { result ≡ slice_index all.now at + 256 * slice_index all.now (at + 1) }
{
    u16::from(all[at]) + 256 * u16::from(all[at + 1])
}

/// Each byte is below 256.
#[inline(always)]
pub(crate) fn see_bytes(bytes: &[u8])
    ensures { AreBytes bytes.now }
{
    let _ = bytes;
}

impl Memory {
    /// Core of so many clicks, which are zeros, and a swap area of these bytes.
    pub(crate) fn new(alloc: Global, clicks: u16, swap: &[u8]) -> Result<Memory, AllocError>
        ensures core { IfOk result (λ memory. memory.core ≡ replicate (64 * clicks) 0) }
        ensures swap { IfOk result (λ memory. memory.swap ≡ swap.now) }
    {
        let core = Core::new(alloc, clicks)?;
        let swap = Vec::from_slice(alloc, swap)?;
        Ok(Memory { core, clicks, swap })
    }

    /// Each byte is below 256. Nothing is read.
    #[inline(always)]
    pub(crate) fn see_bytes(&self)
        ensures { AreBytes (line_of self.now) }
    {
        see_bytes(self.core.as_slice());
        see_bytes(&self.swap);
    }

    /// The byte at a place.
    #[inline(always)]
    #[tactic(auto, using(crate::proofs::Joined::joined))]
    pub(crate) fn byte(&self, at: usize) -> u8
        requires { at < length (line_of self.now) }
        ensures { result ≡ slice_index (line_of self.now) at }
    {
        let cut = 64 * usize::from(self.clicks);
        if at < cut {
            self.core.byte(at as u32)
        } else {
            self.swap[at - cut]
        }
    }

    /// Puts one byte to a place.
    #[inline(always)]
    #[tactic(auto, using(crate::proofs::Joined::joined))]
    pub(crate) fn set(&mut self, at: usize, value: u8)
        requires { at < length (line_of self.old) }
        ensures bytes { line_of self.new ≡ slice_set (line_of self.old) at value }
        ensures core { length self.new.core ≡ length self.old.core }
        ensures swap { length self.new.swap ≡ length self.old.swap }
    {
        let cut = 64 * usize::from(self.clicks);
        if at < cut {
            self.core.set(at as u32, value);
        } else {
            self.swap[at - cut] = value;
        }
    }

    /// The word at a place, both of its bytes in core or in the swap area.
    #[inline(always)]
    #[tactic(auto, using(crate::proofs::Joined::joined))]
    pub(crate) fn word(&self, at: usize) -> u16
        requires place { (at + 2 ≤ length self.now.core) ⊎ (length self.now.core ≤ at) }
        requires inside { at + 2 ≤ length (line_of self.now) }
        ensures { result ≡ slice_index (line_of self.now) at + 256 * slice_index (line_of self.now) (at + 1) }
    {
        let cut = 64 * usize::from(self.clicks);
        if at < cut {
            word_in(self.core.as_slice(), at)
        } else {
            word_in(&self.swap, at - cut)
        }
    }

    /// Puts a word to a place, both of its bytes in core or in the swap area.
    #[inline(always)]
    #[tactic(auto, using(crate::proofs::Joined::joined))]
    pub(crate) fn set_word(&mut self, at: usize, value: u16)
        requires place { (at + 2 ≤ length self.old.core) ⊎ (length self.old.core ≤ at) }
        requires inside { at + 2 ≤ length (line_of self.old) }
        ensures bytes { line_of self.new ≡ word_set (line_of self.old) at value }
        ensures core { length self.new.core ≡ length self.old.core }
        ensures swap { length self.new.swap ≡ length self.old.swap }
    {
        let cut = 64 * usize::from(self.clicks);
        let low = (value % 256) as u8;
        let high = (value / 256) as u8;
        if at < cut {
            self.core.set(at as u32, low);
            self.core.set((at + 1) as u32, high);
        } else {
            self.swap[at - cut] = low;
            self.swap[at - cut + 1] = high;
        }
    }

    /// Copies clicks of core to the swap area.
    #[tactic(auto, using(crate::proofs::Joined::copies))]
    fn copy_out(&mut self, from: u16, to: usize, n: u16)
        requires some { 0 < n }
        requires from { 64 * (from + n) ≤ length self.old.core }
        requires to { length self.old.core ≤ 64 * to }
        requires inside { 64 * (to + n) ≤ length (line_of self.old) }
        ensures bytes { line_of self.new ≡ over (line_of self.old) (64 * to) (part (line_of self.old) (64 * from) (64 * n)) }
        ensures core { length self.new.core ≡ length self.old.core }
        ensures swap { length self.new.swap ≡ length self.old.swap }
    {
        let at = 64 * (to - usize::from(self.clicks));
        write_out(&self.core, from, n, &mut self.swap, at);
    }

    /// Copies clicks of the swap area to core.
    #[tactic(auto, using(crate::proofs::Joined::copies))]
    fn copy_in(&mut self, from: usize, to: u16, n: u16)
        requires some { 0 < n }
        requires from { length self.old.core ≤ 64 * from }
        requires inside { 64 * (from + n) ≤ length (line_of self.old) }
        requires to { 64 * (to + n) ≤ length self.old.core }
        ensures bytes { line_of self.new ≡ over (line_of self.old) (64 * to) (part (line_of self.old) (64 * from) (64 * n)) }
        ensures core { length self.new.core ≡ length self.old.core }
        ensures swap { length self.new.swap ≡ length self.old.swap }
    {
        let at = 64 * (from - usize::from(self.clicks));
        read_in(&mut self.core, to, n, &self.swap, at);
    }

    /// Copies clicks of core to others, also where they overlap.
    #[tactic(auto, using(crate::proofs::Joined::copies))]
    fn copy_core(&mut self, from: u16, to: u16, n: u16)
        requires some { 0 < n }
        requires from { 64 * (from + n) ≤ length self.old.core }
        requires to { 64 * (to + n) ≤ length self.old.core }
        ensures bytes { line_of self.new ≡ over (line_of self.old) (64 * to) (part (line_of self.old) (64 * from) (64 * n)) }
        ensures core { length self.new.core ≡ length self.old.core }
        ensures swap { length self.new.swap ≡ length self.old.swap }
    {
        self.core.copy(from + 1, to + 1, n);
    }

    /// Copies clicks of the swap area to others.
    #[tactic(auto, using(crate::proofs::Joined::copies))]
    fn copy_swap(&mut self, from: usize, to: usize, n: u16)
        requires from { length self.old.core ≤ 64 * from }
        requires to { length self.old.core ≤ 64 * to }
        requires from_inside { 64 * (from + n) ≤ length (line_of self.old) }
        requires to_inside { 64 * (to + n) ≤ length (line_of self.old) }
        ensures bytes { line_of self.new ≡ over (line_of self.old) (64 * to) (part (line_of self.old) (64 * from) (64 * n)) }
        ensures core { length self.new.core ≡ length self.old.core }
        ensures swap { length self.new.swap ≡ length self.old.swap }
    {
        let cut = usize::from(self.clicks);
        shift(
            &mut self.swap,
            64 * (from - cut),
            64 * (to - cut),
            64 * usize::from(n),
        );
    }

    /// Copies clicks to others, each in core or in the swap area.
    pub(crate) fn copy(&mut self, from: usize, to: usize, n: u16)
        requires from { (64 * (from + n) ≤ length self.old.core) ⊎ (length self.old.core ≤ 64 * from) }
        requires to { (64 * (to + n) ≤ length self.old.core) ⊎ (length self.old.core ≤ 64 * to) }
        requires some { 0 < n }
        requires from_inside { 64 * (from + n) ≤ length (line_of self.old) }
        requires to_inside { 64 * (to + n) ≤ length (line_of self.old) }
        ensures bytes { line_of self.new ≡ over (line_of self.old) (64 * to) (part (line_of self.old) (64 * from) (64 * n)) }
        ensures core { length self.new.core ≡ length self.old.core }
        ensures swap { length self.new.swap ≡ length self.old.swap }
    {
        let cut = usize::from(self.clicks);
        if from < cut {
            if to < cut {
                self.copy_core(from as u16, to as u16, n);
            } else {
                self.copy_out(from as u16, to, n);
            }
        } else if to < cut {
            self.copy_in(from, to as u16, n);
        } else {
            self.copy_swap(from, to, n);
        }
    }

    /// Puts bytes to a place, all of it in core or in the swap area.
    #[tactic(auto, using(crate::proofs::Joined::copies))]
    pub(crate) fn put(&mut self, at: usize, bytes: &[u8])
        requires place { (at + length bytes.now ≤ length self.old.core) ⊎ (length self.old.core ≤ at) }
        requires inside { at + length bytes.now ≤ length (line_of self.old) }
        ensures bytes { line_of self.new ≡ over (line_of self.old) at bytes.now }
        ensures core { length self.new.core ≡ length self.old.core }
        ensures swap { length self.new.swap ≡ length self.old.swap }
    {
        let cut = 64 * usize::from(self.clicks);
        if at < cut {
            self.core.put(at as u32, bytes);
        } else {
            write(&mut self.swap, at - cut, bytes);
        }
    }

    /// Reads bytes at a place, all of them in core or in the swap area.
    #[tactic(auto, using(crate::proofs::Joined::reads))]
    pub(crate) fn get(&self, at: usize, out: &mut [u8])
        requires place { (at + length out.old ≤ length self.now.core) ⊎ (length self.now.core ≤ at) }
        requires inside { at + length out.old ≤ length (line_of self.now) }
        requires some { 0 < length out.old }
        ensures { out.new ≡ part (line_of self.now) at (length out.old) }
    {
        let cut = 64 * usize::from(self.clicks);
        let n = out.len();
        if at < cut {
            read_out(self.core.as_slice(), at, n, out);
        } else {
            read_out(&self.swap, at - cut, n, out);
        }
    }

    /// Clears clicks, all in core or in the swap area.
    #[tactic(auto, using(crate::proofs::Joined::copies))]
    pub(crate) fn clear(&mut self, at: usize, n: u16)
        requires place { (64 * (at + n) ≤ length self.old.core) ⊎ (length self.old.core ≤ 64 * at) }
        requires inside { 64 * (at + n) ≤ length (line_of self.old) }
        requires some { 0 < n }
        ensures bytes { line_of self.new ≡ over (line_of self.old) (64 * at) (replicate (64 * n) 0) }
        ensures core { length self.new.core ≡ length self.old.core }
        ensures swap { length self.new.swap ≡ length self.old.swap }
    {
        let cut = usize::from(self.clicks);
        if at < cut {
            self.core.clear(at as u16 + 1, n);
        } else {
            fill(&mut self.swap, 64 * (at - cut), 64 * usize::from(n));
        }
    }

    /// The bytes of core.
    pub(crate) fn core_bytes(&self) -> &[u8]
        ensures { result.now ≡ self.now.core }
    {
        self.core.as_slice()
    }

    /// An attempt at one instruction of a process that stands in core.
    #[inline(always)]
    pub(crate) fn attempt(
        &mut self,
        standing: &Standing,
        again: &Standing,
        dispatch: &Dispatch,
    ) -> bool
        requires at_hand { IsAtHand standing.now self.old.core }
        requires same { again.now ≡ standing.now }
        ensures did { Attempted standing.now self.old.core self.new.core result }
        ensures swap { self.new.swap ≡ self.old.swap }
    {
        attempt(self.core.bytes_mut(), standing, again, dispatch)
    }

    /// The system call that a process asks for, which stands in core.
    #[inline(always)]
    pub(crate) fn attempt_call(&mut self, standing: &Standing) -> Option<u8>
        requires { IsAtHand standing.now self.old.core }
        ensures did { Called standing.now self.old.core self.new.core result }
        ensures swap { self.new.swap ≡ self.old.swap }
    {
        attempt_call(self.core.bytes_mut(), standing)
    }

    /// The bytes of a u area that stands at a place, all of them in core or in the swap area.
    #[inline(always)]
    #[tactic(auto, using(crate::proofs::Joined::reads))]
    pub(crate) fn area_bytes(&self, at: usize) -> &[u8]
        requires place { (at + 1024 ≤ length self.now.core) ⊎ (length self.now.core ≤ at) }
        requires inside { at + 1024 ≤ length (line_of self.now) }
        ensures { result.now ≡ part (line_of self.now) at 1024 }
    {
        let cut = 64 * usize::from(self.clicks);
        if at < cut {
            area_in(self.core.as_slice(), at)
        } else {
            area_in(&self.swap, at - cut)
        }
    }

    /// The bytes of the swap area.
    pub(crate) fn swap_bytes(&self) -> &[u8]
        ensures { result.now ≡ self.now.swap }
    {
        &self.swap
    }

    /// The byte of core at a place.
    pub(crate) fn core_byte(&self, at: usize) -> u8
        requires { at < length self.now.core }
        ensures { result ≡ slice_index self.now.core at }
    {
        self.core.as_slice()[at]
    }

    /// The byte of the swap area at a place.
    pub(crate) fn swap_byte(&self, at: usize) -> u8
        requires { at < length self.now.swap }
        ensures { result ≡ slice_index self.now.swap at }
    {
        self.swap[at]
    }

    /// Reads the 16 clicks at a place, all in core or in the swap area.
    #[tactic(auto, using(crate::proofs::Joined::reads))]
    pub(crate) fn area(&self, at: usize, out: &mut [u8; 1024])
        requires place { (64 * (at + 16) ≤ length self.now.core) ⊎ (length self.now.core ≤ 64 * at) }
        requires inside { 64 * (at + 16) ≤ length (line_of self.now) }
        ensures { out.new ≡ part (line_of self.now) (64 * at) 1024 }
    {
        let cut = usize::from(self.clicks);
        if at < cut {
            self.core.to_swap(at as u16 + 1, 16, out);
        } else {
            read_out(&self.swap, 64 * (at - cut), 1024, out);
        }
    }

    /// Reads the 8 clicks at a place in the swap area.
    #[tactic(auto, using(crate::proofs::Joined::reads))]
    pub(crate) fn half(&self, at: usize, out: &mut [u8; 512])
        requires place { length self.now.core ≤ 64 * at }
        requires inside { 64 * (at + 8) ≤ length (line_of self.now) }
        ensures { out.new ≡ part (line_of self.now) (64 * at) 512 }
    {
        let cut = usize::from(self.clicks);
        read_out(&self.swap, 64 * (at - cut), 512, out);
    }
}
