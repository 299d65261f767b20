//! What an instruction makes of its destination, as types: alone, or with a source that was read before.
ghost use Rattle.std.specs.Prelude.{◌≡◌, ◌<◌, Bool, ℕ, false};
ghost use Rattle.pdp_decode.specs.declared.instr.Width.{Width};
ghost use Rattle.pdp_decode.specs.declared.instr.Width.TheVariants.{Word};
ghost use Rattle.pdp_step.specs.declared.arithmetic.Made.{Made};
ghost use Rattle.pdp_step.specs.Arithmetic.{size, result_of, swapped, Complement, Increase, Decrease, Negate, AddCarry, SubtractCarry, RotateRight, RotateLeft, ShiftRight, ShiftLeft, change_of};

use crate::arithmetic::{Made, halved, negated, one, outcome, shifted, swap};
use crate::operation::Operation;
use crate::size::Size;
use std::marker::PhantomData;

/// What is made of a destination, with the old C.
pub trait Alteration {
    ghost made: { Self → Width → Bool → ℕ → Made };

    /// Whether it is for this size.
    ghost IsFor: { Self → Width → Type 0 };

    fn make<W: Size>(&self, d: u16, c: bool) -> Made
        requires size { IsFor self.now W.width }
        requires dest { d < size W.width }
        ensures made { result ≡ made self.now W.width c d }
        ensures codes { result.cc < 16 }
        ensures small { result.value < size W.width };
}

/// What is made of it with a source.
#[derive(Drop)]
pub struct With<O: Operation> {
    pub source: u16,
    pub operation: PhantomData<O>,
}

impl<O: Operation> Alteration for With<O> {
    ghost made = { λ with w c d. O.made w c with.source d };

    ghost IsFor = { λ with w. with.source < size w };

    #[inline(always)]
    fn make<W: Size>(&self, d: u16, c: bool) -> Made {
        O::make::<W>(self.source, d, c)
    }
}

/// SWAB.
#[derive(Drop)]
pub struct Exchanging;

impl Alteration for Exchanging {
    ghost made = { λ _ _ _ d. swapped d };

    ghost IsFor = { λ _ w. w ≡ Word };

    #[inline(always)]
    fn make<W: Size>(&self, d: u16, _c: bool) -> Made {
        swap(d)
    }
}

/// TST.
#[derive(Drop)]
pub struct Same;

impl Alteration for Same {
    ghost made = { λ _ w _ d. result_of w d false false };

    ghost IsFor = { λ _ _. Unit {0} };

    #[inline(always)]
    fn make<W: Size>(&self, d: u16, _c: bool) -> Made {
        outcome::<W>(d, false, false)
    }
}

/// COM.
#[derive(Drop)]
pub struct Complementing;

#[tactic(auto, unfolding(crate::specs::Arithmetic::change_of))]
impl Alteration for Complementing {
    ghost made = { λ _. change_of Complement };

    ghost IsFor = { λ _ _. Unit {0} };

    #[inline(always)]
    fn make<W: Size>(&self, d: u16, _c: bool) -> Made {
        outcome::<W>((W::all() - 1 - d as u32) as u16, false, true)
    }
}

/// INC.
#[derive(Drop)]
pub struct Increasing;

#[tactic(auto, unfolding(crate::specs::Arithmetic::change_of))]
impl Alteration for Increasing {
    ghost made = { λ _. change_of Increase };

    ghost IsFor = { λ _ _. Unit {0} };

    #[inline(always)]
    fn make<W: Size>(&self, d: u16, c: bool) -> Made {
        outcome::<W>(W::cut(d as u32 + 1), d as u32 == W::top() - 1, c)
    }
}

/// DEC.
#[derive(Drop)]
pub struct Decreasing;

#[tactic(auto, unfolding(crate::specs::Arithmetic::change_of))]
impl Alteration for Decreasing {
    ghost made = { λ _. change_of Decrease };

    ghost IsFor = { λ _ _. Unit {0} };

    #[inline(always)]
    fn make<W: Size>(&self, d: u16, c: bool) -> Made {
        outcome::<W>(W::cut(d as u32 + (W::all() - 1)), d as u32 == W::top(), c)
    }
}

/// NEG.
#[derive(Drop)]
pub struct Negating;

#[tactic(auto, unfolding(crate::specs::Arithmetic::change_of))]
impl Alteration for Negating {
    ghost made = { λ _. change_of Negate };

    ghost IsFor = { λ _ _. Unit {0} };

    #[inline(always)]
    fn make<W: Size>(&self, d: u16, _c: bool) -> Made {
        negated::<W>(W::cut(W::all() - d as u32))
    }
}

/// ADC.
#[derive(Drop)]
pub struct AddingCarry;

#[tactic(auto, unfolding(crate::specs::Arithmetic::change_of))]
impl Alteration for AddingCarry {
    ghost made = { λ _. change_of AddCarry };

    ghost IsFor = { λ _ _. Unit {0} };

    #[inline(always)]
    fn make<W: Size>(&self, d: u16, c: bool) -> Made {
        let was = d as u32;
        outcome::<W>(
            W::cut(was + one(c)),
            was == W::top() - 1 && c,
            was == W::all() - 1 && c,
        )
    }
}

/// SBC.
#[derive(Drop)]
pub struct SubtractingCarry;

#[tactic(auto, unfolding(crate::specs::Arithmetic::change_of))]
impl Alteration for SubtractingCarry {
    ghost made = { λ _. change_of SubtractCarry };

    ghost IsFor = { λ _ _. Unit {0} };

    #[inline(always)]
    fn make<W: Size>(&self, d: u16, c: bool) -> Made {
        let was = d as u32;
        outcome::<W>(
            W::cut(was + (W::all() - one(c))),
            was == W::top() && c,
            was == 0 && c,
        )
    }
}

/// ROR.
#[derive(Drop)]
pub struct RotatingRight;

#[tactic(auto, unfolding(crate::specs::Arithmetic::change_of))]
impl Alteration for RotatingRight {
    ghost made = { λ _. change_of RotateRight };

    ghost IsFor = { λ _ _. Unit {0} };

    #[inline(always)]
    fn make<W: Size>(&self, d: u16, c: bool) -> Made {
        shifted::<W>(halved::<W>(d, c), d % 2 == 1)
    }
}

/// ROL.
#[derive(Drop)]
pub struct RotatingLeft;

#[tactic(auto, unfolding(crate::specs::Arithmetic::change_of))]
impl Alteration for RotatingLeft {
    ghost made = { λ _. change_of RotateLeft };

    ghost IsFor = { λ _ _. Unit {0} };

    #[inline(always)]
    fn make<W: Size>(&self, d: u16, c: bool) -> Made {
        shifted::<W>(W::cut(2 * d as u32 + one(c)), d as u32 >= W::top())
    }
}

/// ASR.
#[derive(Drop)]
pub struct ShiftingRight;

#[tactic(auto, unfolding(crate::specs::Arithmetic::change_of))]
impl Alteration for ShiftingRight {
    ghost made = { λ _. change_of ShiftRight };

    ghost IsFor = { λ _ _. Unit {0} };

    #[inline(always)]
    fn make<W: Size>(&self, d: u16, _c: bool) -> Made {
        shifted::<W>(halved::<W>(d, d as u32 >= W::top()), d % 2 == 1)
    }
}

/// ASL.
#[derive(Drop)]
pub struct ShiftingLeft;

#[tactic(auto, unfolding(crate::specs::Arithmetic::change_of))]
impl Alteration for ShiftingLeft {
    ghost made = { λ _. change_of ShiftLeft };

    ghost IsFor = { λ _ _. Unit {0} };

    #[inline(always)]
    fn make<W: Size>(&self, d: u16, _c: bool) -> Made {
        shifted::<W>(W::cut(2 * d as u32), d as u32 >= W::top())
    }
}
