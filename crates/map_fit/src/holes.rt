//! Maps of what is free: `coremap` and `swapmap` in Lions' Commentary, `malloc.c`.
ghost use Rattle.std.specs.Prelude.{◌≡◌, ◌↔◌, ℕ, ◌+◌, ◌<◌, ◌≤◌, ◌&&◌, ◌||◌, not, true, false, List, length, nat_le, position, IfSome, MatchOption, slice_set};
ghost use Rattle.std.specs.List.{list_all};
ghost use Rattle.arrayvec.specs.ArrayVec.{array_vec_len};
ghost use Rattle.map_fit.specs.Fit.{Range, first_fit};
ghost use Rattle.map_fit.specs.Free.{IsMap, AreHoles, is_free, is_within};
ghost use Rattle.map_fit.specs.Lists.{hole_at, cut_at, joined_at, given_at, ends_at, is_apart, IsPlace};

use arrayvec::ArrayVec;
use std::marker::Model;

/// The most holes that a map has room for.
const MOST: usize = 100;

/// A range of units that are free, with none free before or after it.
#[derive(Clone, Copy, Debug, PartialEq, Eq, Default)]
pub struct Hole {
    /// The first unit.
    pub at: u16,
    /// How many units there are.
    pub size: u16,
}

/// What is free of core, in clicks, or of the swap area, in blocks: holes in rising order, between any two of which
/// something is taken.
#[derive(Drop)]
pub struct Holes {
    holes: ArrayVec<Hole, MOST>,
}

impl Model for Holes {
    ghost use Rattle.std.specs.Prelude.{List};
    ghost use Rattle.map_fit.specs.declared.holes.Hole.{Hole};

    ghost Value = { List Hole };

    ghost use Rattle.map_fit.specs.Free.{AreHoles};

    ghost view = { λ h. h.holes.items };

    ghost invariant = { λ h. AreHoles h.holes.items };
}

/// The index of the first hole of at least `n` units.
#[tactic(auto, using(crate::proofs::Taking::first_large))]
fn large_enough(holes: &[Hole], n: u16) -> Option<usize>
    ensures first { result ≡ position (λ h. nat_le n h.size) holes.now }
    ensures there { IfSome result (λ i. (i < length holes.now) × (n ≤ (hole_at holes.now i).size)) }
{
    holes.iter().position(|h| n <= h.size)
}

/// Whether no hole has one of the `n` units from `at` on.
fn are_apart(holes: &[Hole], at: u16, n: u16) -> bool
    ensures { result ≡ list_all (is_apart at n) holes.now }
{
    let end = u32::from(at) + u32::from(n);
    holes.iter().all(|h| end <= u32::from(h.at)
        || u32::from(h.at) + u32::from(h.size) <= u32::from(at))
}

/// Puts a hole in the place of another one.
fn put(holes: &mut ArrayVec<Hole, MOST>, i: usize, hole: Hole)
    requires { i < length holes.old.items }
    ensures items { holes.new.items ≡ slice_set holes.old.items i hole }
    ensures len { array_vec_len holes.new ≡ array_vec_len holes.old }
{
    holes.as_mut_slice()[i] = hole;
}

/// The number of holes that end before a place.
#[tactic(auto, using(crate::proofs::Giving::is_place))]
fn place_of(holes: &[Hole], at: u16) -> usize
    ensures { IsPlace holes.now at result }
{
    holes
        .iter()
        .position(|h| u32::from(at) <= u32::from(h.at) + u32::from(h.size))
        .unwrap_or(holes.len())
}

/// Puts a range among the holes, as one with those that it touches.
#[tactic(auto, using(crate::proofs::Giving::gives))]
fn give_at(holes: &mut ArrayVec<Hole, MOST>, i: usize, at: u16, n: u16)
    requires index { i ≤ length holes.old.items }
    requires room { length holes.old.items < 100 }
    requires small { at + n ≤ 65535 }
    requires are { AreHoles holes.old.items }
    requires before { i < length holes.old.items → at ≤ ends_at (hole_at holes.old.items i) }
    requires taken { (x : ℕ) → at ≤ x → x < at + n → is_free holes.old.items x ≡ false }
    ensures { holes.new.items ≡ given_at holes.old.items i at n }
{
    if i < holes.as_slice().len() {
        let before = holes.as_slice()[i];
        if before.at + before.size == at {
            holes.remove(i);
            join(holes, i, before.at, before.size + n);
            return;
        }
    }
    join(holes, i, at, n);
}

/// Puts a range among the holes, as one with the hole after it where it touches that.
#[tactic(auto, using(crate::proofs::Giving::joins))]
fn join(holes: &mut ArrayVec<Hole, MOST>, i: usize, at: u16, n: u16)
    requires index { i ≤ length holes.old.items }
    requires room { length holes.old.items < 100 }
    requires small { at + n ≤ 65535 }
    requires ends { i < length holes.old.items → ends_at (hole_at holes.old.items i) ≤ 65535 }
    ensures { holes.new.items ≡ joined_at holes.old.items i at n }
{
    if i < holes.as_slice().len() {
        let next = holes.as_slice()[i];
        if at + n == next.at {
            let both = Hole {
                at,
                size: n + next.size,
            };
            put(holes, i, both);
            return;
        }
    }
    holes.insert(i, Hole { at, size: n });
}

/// Takes the first units of a hole. The answer is where they begin.
#[tactic(auto, using(crate::proofs::Taking::cuts))]
fn cut(holes: &mut ArrayVec<Hole, MOST>, i: usize, n: u16) -> u16
    requires index { i < length holes.old.items }
    requires fits { n ≤ (hole_at holes.old.items i).size }
    requires are { AreHoles holes.old.items }
    ensures at { result ≡ (hole_at holes.old.items i).at }
    ensures items { holes.new.items ≡ cut_at holes.old.items i n }
{
    let hole = holes.as_slice()[i];
    if hole.size == n {
        holes.remove(i);
    } else {
        let rest = Hole {
            at: hole.at + n,
            size: hole.size - n,
        };
        put(holes, i, rest);
    }
    hole.at
}

impl Holes {
    /// A map in which `count` units are free, from `first` on.
    pub fn new(first: u16, count: u16) -> Holes
        requires { first + count ≤ 65535 }
        ensures { (x : ℕ) → is_free result x ≡ is_within first count x }
    {
        let mut holes = ArrayVec::new();
        if count > 0 {
            holes.push(Hole {
                at: first,
                size: count,
            });
        }
        Holes { holes }
    }

    /// Takes `n` units at the front of the first hole that is large enough, and answers where they begin: `malloc`. It is
    /// first fit over whatever is taken. `None` comes exactly where no hole has `n` units; nothing has changed then.
    pub fn take(&mut self, n: u16) -> Option<u16>
        requires { 0 < n }
        ensures fit { (taken : List Range) (first last : ℕ) → IsMap self.old taken first last
            → result ≡ first_fit taken first last n }
        ensures left { MatchOption result (self.new ≡ self.old)
            (λ a. (x : ℕ) → is_free self.new x ≡ (is_free self.old x && not (is_within a n x))) }
        ensures few { length self.new ≤ length self.old }
    {
        match large_enough(self.holes.as_slice(), n) {
            Some(i) => Some(cut(&mut self.holes, i, n)),
            None => None,
        }
    }

    /// Where `take` would find `n` units. Nothing changes.
    pub fn find(&self, n: u16) -> Option<u16>
        requires { 0 < n }
        ensures { (taken : List Range) (first last : ℕ) → IsMap self.now taken first last
            → result ≡ first_fit taken first last n }
    {
        let holes = self.holes.as_slice();
        match large_enough(holes, n) {
            Some(i) => Some(holes[i].at),
            None => None,
        }
    }

    /// Gives back `n` units from `at` on, which are taken: `mfree`. What is free next to them becomes one hole with them.
    pub fn give(&mut self, at: u16, n: u16)
        requires some { 0 < n }
        requires small { at + n ≤ 65535 }
        requires taken { (x : ℕ) → at ≤ x → x < at + n → is_free self.old x ≡ false }
        requires room { length self.old < 100 }
        ensures { (x : ℕ) → is_free self.new x ≡ (is_free self.old x || is_within at n x) }
    {
        let i = place_of(self.holes.as_slice(), at);
        give_at(&mut self.holes, i, at, n);
    }

    /// Whether the `n` units from `at` on are all taken, so that they can be given back.
    pub fn is_taken(&self, at: u16, n: u16) -> bool
        requires { 0 < n }
        ensures { (result ≡ true) ↔ ((x : ℕ) → at ≤ x → x < at + n → is_free self.now x ≡ false) }
    {
        are_apart(self.holes.as_slice(), at, n)
    }

    /// How many holes there are: no more than one more than there are ranges that are taken.
    pub fn count(&self) -> usize
        ensures count { result ≡ length self.now }
        ensures few { (taken : List Range) (first last : ℕ) → IsMap self.now taken first last
            → length self.now ≤ length taken + 1 }
        ensures are { AreHoles self.now }
    {
        self.holes.as_slice().len()
    }
}
