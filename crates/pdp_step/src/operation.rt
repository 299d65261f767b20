//! What the instructions make of their operands, as types: a row is built for each of them.
ghost use Rattle.std.specs.Prelude.{◌≡◌, ◌<◌, Bool, ℕ};
ghost use Rattle.pdp_decode.specs.declared.instr.Width.{Width};
ghost use Rattle.pdp_step.specs.declared.arithmetic.Made.{Made};
ghost use Rattle.pdp_step.specs.Arithmetic.{size, Compare, TestBits, ClearBits, SetBits, Sum, Difference, ExclusiveOr, combine_of};

use crate::arithmetic::{Made, below, negative, outcome};
use crate::size::Size;

/// An operation on a source and a destination, with the old C.
pub trait Operation {
    ghost made: { Width → Bool → ℕ → ℕ → Made };

    fn make<W: Size>(s: u16, d: u16, c: bool) -> Made
        requires source { s < size W.width }
        requires dest { d < size W.width }
        ensures made { result ≡ made W.width c s d }
        ensures codes { result.cc < 16 }
        ensures small { result.value < size W.width };
}

/// CMP.
pub struct Comparison;

#[tactic(auto, using(crate::proofs::Signs::overflows), unfolding(crate::specs::Arithmetic::combine_of))]
impl Operation for Comparison {
    ghost made = { combine_of Compare };

    #[inline(always)]
    fn make<W: Size>(s: u16, d: u16, _c: bool) -> Made {
        let t = W::cut(s as u32 + (W::all() - d as u32));
        outcome::<W>(t, negative::<W>(t) != below::<W>(s, d), s < d)
    }
}

/// BIT.
pub struct BitTest;

#[tactic(auto, unfolding(crate::specs::Arithmetic::combine_of))]
impl Operation for BitTest {
    ghost made = { combine_of TestBits };

    #[inline(always)]
    fn make<W: Size>(s: u16, d: u16, c: bool) -> Made {
        outcome::<W>(s & d, false, c)
    }
}

/// BIC.
pub struct BitClear;

#[tactic(auto, unfolding(crate::specs::Arithmetic::combine_of))]
impl Operation for BitClear {
    ghost made = { combine_of ClearBits };

    #[inline(always)]
    fn make<W: Size>(s: u16, d: u16, c: bool) -> Made {
        outcome::<W>(d & (W::all() - 1 - s as u32) as u16, false, c)
    }
}

/// BIS.
pub struct BitSet;

#[tactic(auto, unfolding(crate::specs::Arithmetic::combine_of))]
impl Operation for BitSet {
    ghost made = { combine_of SetBits };

    #[inline(always)]
    fn make<W: Size>(s: u16, d: u16, c: bool) -> Made {
        outcome::<W>(d | s, false, c)
    }
}

/// ADD.
pub struct Addition;

#[tactic(auto, using(crate::proofs::Signs::overflows), unfolding(crate::specs::Arithmetic::combine_of))]
impl Operation for Addition {
    ghost made = { combine_of Sum };

    #[inline(always)]
    fn make<W: Size>(s: u16, d: u16, _c: bool) -> Made {
        let sum = d as u32 + s as u32;
        let t = W::cut(sum);
        outcome::<W>(t, below::<W>(t, s) != negative::<W>(d), sum >= W::all())
    }
}

/// SUB.
pub struct Subtraction;

#[tactic(auto, using(crate::proofs::Signs::overflows), unfolding(crate::specs::Arithmetic::combine_of))]
impl Operation for Subtraction {
    ghost made = { combine_of Difference };

    #[inline(always)]
    fn make<W: Size>(s: u16, d: u16, _c: bool) -> Made {
        let t = W::cut(d as u32 + (W::all() - s as u32));
        outcome::<W>(t, negative::<W>(t) != below::<W>(d, s), d < s)
    }
}

/// XOR.
pub struct BitDifference;

#[tactic(auto, unfolding(crate::specs::Arithmetic::combine_of))]
impl Operation for BitDifference {
    ghost made = { combine_of ExclusiveOr };

    #[inline(always)]
    fn make<W: Size>(s: u16, d: u16, c: bool) -> Made {
        outcome::<W>(d ^ s, false, c)
    }
}
