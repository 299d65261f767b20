//! Core: the memory of the machine, in which the images of processes stand, in clicks of 64 bytes. `copyseg`, `clearseg`
//! and the copies of `swap` in Lions' Commentary, `m40.s` and `bio.c`.
//!
//! Clicks are numbered from 1 on, as places in core are. Bytes are counted from the first click's.
#![tactic(auto)]

ghost use Rattle.std.specs.Prelude.{◌≡◌, ◌+◌, ◌*◌, ◌<◌, ◌≤◌, ℕ, length, replicate, slice_index, slice_set, IfOk};
ghost use Rattle.std.specs.Borrow.{sem};
ghost use Rattle.core_mem.specs.Bytes.{part, over, click_start};
ghost use Rattle.core_mem.specs.Lent.{LendsBytes};

use std::alloc::{AllocError, Global};
use std::marker::Model;

/// The bytes of core.
#[derive(Drop)]
pub struct Core {
    bytes: Vec<u8>,
}

impl Model for Core {
    ghost use Rattle.std.specs.Prelude.{List, ℕ};

    ghost Value = { List ℕ };

    ghost view = { λ c. c.bytes.items };
}

/// The byte at which a click begins.
fn start_of(click: u16) -> usize
    requires { 0 < click }
    ensures { result ≡ click_start click }
{
    64 * (usize::from(click) - 1)
}

impl Core {
    /// Core of so many clicks, which are zeros.
    ///
    /// # Errors
    ///
    /// There is no memory for them.
    pub fn new(alloc: Global, clicks: u16) -> Result<Core, AllocError>
        ensures { IfOk result (λ core. core ≡ replicate (64 * clicks) 0) }
    {
        Ok(Core {
            bytes: zeros(alloc, 64 * usize::from(clicks))?,
        })
    }

    /// All bytes.
    pub fn as_slice(&self) -> &[u8]
        ensures { result.now ≡ self.now }
    {
        &self.bytes
    }

    /// All bytes, to change them.
    #[inline(always)]
    pub fn bytes_mut(&mut self) -> &mut [u8]
        ensures* ends { sem 𝓛 (LendsBytes self.entry result) }
        ensures bytes { result.now ≡ self.entry.now }
    {
        self.bytes.as_mut_slice()
    }

    /// The bytes of a click.
    #[tactic(auto, unfolding(crate::specs::Bytes::part))]
    pub fn click(&self, at: u16) -> &[u8; 64]
        requires first { 0 < at }
        requires inside { 64 * at ≤ length self.now }
        ensures { result.now ≡ part self.now (click_start at) 64 }
    {
        let start = start_of(at);
        chunk(&self.bytes[start..start + 64])
    }

    /// The byte at a place.
    #[inline(always)]
    pub fn byte(&self, at: u32) -> u8
        requires { at < length self.now }
        ensures { result ≡ slice_index self.now at }
    {
        self.bytes[at as usize]
    }

    /// Puts one byte to a place.
    #[inline(always)]
    pub fn set(&mut self, at: u32, value: u8)
        requires { at < length self.old }
        ensures bytes { self.new ≡ slice_set self.old at value }
        ensures length { length self.new ≡ length self.old }
    {
        self.bytes[at as usize] = value;
    }

    /// Puts bytes to a place, and leaves all others.
    #[tactic(auto, using(crate::proofs::Parts::lengths))]
    pub fn put(&mut self, at: u32, bytes: &[u8])
        requires { at + length bytes.now ≤ length self.old }
        ensures bytes { self.new ≡ over self.old at bytes.now }
        ensures length { length self.new ≡ length self.old }
    {
        write(&mut self.bytes, at as usize, bytes);
    }

    /// Makes `n` clicks from `at` on zeros, and leaves all others.
    #[tactic(auto, using(crate::proofs::Parts::lengths))]
    pub fn clear(&mut self, at: u16, n: u16)
        requires first { 0 < at }
        requires inside { click_start at + 64 * n ≤ length self.old }
        ensures bytes { self.new ≡ over self.old (click_start at) (replicate (64 * n) 0) }
        ensures length { length self.new ≡ length self.old }
    {
        fill(&mut self.bytes, start_of(at), 64 * usize::from(n));
    }

    /// Copies `n` clicks from `from` on to those from `to` on, also where they overlap, and leaves all others.
    #[tactic(auto, using(crate::proofs::Parts::lengths))]
    pub fn copy(&mut self, from: u16, to: u16, n: u16)
        requires from { 0 < from }
        requires from_inside { click_start from + 64 * n ≤ length self.old }
        requires to { 0 < to }
        requires to_inside { click_start to + 64 * n ≤ length self.old }
        ensures bytes { self.new ≡ over self.old (click_start to) (part self.old (click_start from) (64 * n)) }
        ensures length { length self.new ≡ length self.old }
    {
        shift(
            &mut self.bytes,
            start_of(from),
            start_of(to),
            64 * usize::from(n),
        );
    }

    /// Copies `n` clicks from `at` on to a part of the swap area.
    #[tactic(auto, unfolding(crate::specs::Bytes::part))]
    pub fn to_swap(&self, at: u16, n: u16, area: &mut [u8])
        requires first { 0 < at }
        requires inside { click_start at + 64 * n ≤ length self.now }
        requires size { length area.old ≡ 64 * n }
        ensures { area.new ≡ part self.now (click_start at) (64 * n) }
    {
        let start = start_of(at);
        area.copy_from_slice(&self.bytes[start..start + 64 * usize::from(n)]);
    }

    /// Copies a part of the swap area to `n` clicks from `at` on, and leaves all others.
    #[tactic(auto, using(crate::proofs::Parts::lengths))]
    pub fn from_swap(&mut self, area: &[u8], at: u16, n: u16)
        requires first { 0 < at }
        requires inside { click_start at + 64 * n ≤ length self.old }
        requires size { length area.now ≡ 64 * n }
        ensures bytes { self.new ≡ over self.old (click_start at) area.now }
        ensures length { length self.new ≡ length self.old }
    {
        write(&mut self.bytes, start_of(at), area);
    }
}

/// Sixty-four bytes as the bytes of a click.
fn chunk(bytes: &[u8]) -> &[u8; 64]
    requires { length bytes.now ≡ 64 }
    ensures { result.now ≡ bytes.now }
{
    bytes.as_array().unwrap()
}

/// Puts bytes to a place.
#[tactic(auto, unfolding(crate::specs::Bytes::over))]
fn write(all: &mut [u8], at: usize, bytes: &[u8])
    requires { at + length bytes.now ≤ length all.old }
    ensures { all.new ≡ over all.old at bytes.now }
{
    all[at..at + bytes.len()].copy_from_slice(bytes);
}

/// Puts `n` zeros to a place.
#[tactic(auto, unfolding(crate::specs::Bytes::over))]
fn fill(all: &mut [u8], at: usize, n: usize)
    requires { at + n ≤ length all.old }
    ensures { all.new ≡ over all.old at (replicate n 0) }
{
    all[at..at + n].fill(0);
}

/// The `n` bytes from a place on.
#[tactic(auto, unfolding(crate::specs::Bytes::part))]
fn piece(all: &[u8], at: usize, n: usize) -> &[u8]
    requires { at + n ≤ length all.now }
    ensures { result.now ≡ part all.now at n }
{
    &all[at..at + n]
}

/// Puts `n` bytes to a place behind them.
#[tactic(auto, using(crate::proofs::Parts::apart))]
fn copy_up(all: &mut [u8], from: usize, to: usize, n: usize)
    requires apart { from + n ≤ to }
    requires to { to + n ≤ length all.old }
    ensures { all.new ≡ over all.old to (part all.old from n) }
{
    let (low, high) = all.split_at_mut(to);
    write(high, 0, piece(low, from, n));
}

/// Puts `n` bytes to a place before them.
#[tactic(auto, using(crate::proofs::Parts::apart))]
fn copy_down(all: &mut [u8], from: usize, to: usize, n: usize)
    requires apart { to + n ≤ from }
    requires from { from + n ≤ length all.old }
    ensures { all.new ≡ over all.old to (part all.old from n) }
{
    let (low, high) = all.split_at_mut(from);
    write(low, to, piece(high, 0, n));
}

/// Puts `n` bytes to a place where they overlap.
#[tactic(auto, unfolding(crate::specs::Bytes::over, crate::specs::Bytes::part))]
fn copy_over(all: &mut [u8], from: usize, to: usize, n: usize)
    requires from { from + n ≤ length all.old }
    requires to { to + n ≤ length all.old }
    ensures { all.new ≡ over all.old to (part all.old from n) }
{
    all.copy_within(from..from + n, to);
}

/// Puts `n` bytes to another place, or leaves them where they are.
#[tactic(auto, using(crate::proofs::Parts::stays))]
fn shift(all: &mut [u8], from: usize, to: usize, n: usize)
    requires from { from + n ≤ length all.old }
    requires to { to + n ≤ length all.old }
    ensures { all.new ≡ over all.old to (part all.old from n) }
{
    if from + n <= to {
        copy_up(all, from, to, n);
    } else if to + n <= from {
        copy_down(all, from, to, n);
    } else if from != to {
        copy_over(all, from, to, n);
    }
}

/// So many zeros.
fn zeros(alloc: Global, n: usize) -> Result<Vec<u8>, AllocError>
    ensures { IfOk result (λ v. v.items ≡ replicate n 0) }
{
    vec![in alloc; 0; n]
}
