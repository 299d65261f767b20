//! Operands in memory.
ghost use Rattle.std.specs.Prelude.{◌≡◌, ◌<◌, true, false, IfOk, IfErr};
ghost use Rattle.pdp_decode.specs.declared.addressing.Addressing.{Addressing};
ghost use Rattle.pdp_step.specs.declared.halt.Halt.{Halt};
ghost use Rattle.pdp_step.specs.Arithmetic.{size};
ghost use Rattle.pdp_step.specs.Parts.{IsMissed, IsTrapped, IsLoaded, value_in};

use crate::addressing_mode::{AddressingMode, low_word, next};
use crate::arithmetic::Made;
use crate::halt::Halt;
use crate::processor::Processor;
use crate::size::Size;
use v6_base::Trap;

// Reads the operand at a place.
#[inline(always)]
fn read<P: Processor, W: Size>(p: &P, place: usize) -> Result<u16, Halt>
    requires { P.IsPlace (P.rest p.now) W.width place }
    ensures value { IsLoaded result (value_in W.width (P.machine p.now).image (P.address (P.rest p.now) place)) }
    ensures small { IfOk result (λ value. value < size W.width) }
    ensures sure { IsMissed result → ⊥ }
    ensures trapped { IsTrapped result → P.MayTrap }
{
    Ok(W::load(p, place)?)
}

/// Reads the operand at an address.
#[inline(always)]
pub fn read_at<P: Processor, W: Size>(p: &P, at: u16) -> Result<u16, Halt>
    ensures value { IsLoaded result (value_in W.width (P.machine p.now).image at) }
    ensures small { IfOk result (λ value. value < size W.width) }
    ensures missed { IsMissed result → P.MayMiss }
    ensures trapped { IsTrapped result → P.MayTrap }
{
    match W::place(p, at) {
        Some(place) => Ok(W::load(p, place)?),
        None => Err(Halt::Missed),
    }
}

/// Finds the place of the operand at an address.
#[inline(always)]
pub fn place_at<P: Processor, W: Size>(p: &P, at: u16) -> Result<usize, Halt>
    ensures place { IfOk result (λ place. P.IsPlace (P.rest p.now) W.width place) }
    ensures address { IfOk result (λ place. P.address (P.rest p.now) place ≡ at) }
    ensures only { IfErr result (λ halt. halt ≡ Halt.Missed) }
    ensures missed { IsMissed result → P.MayMiss }
    ensures trapped { IsTrapped result → P.MayTrap }
{
    match W::place(p, at) {
        Some(place) => Ok(place),
        None => Err(Halt::Missed),
    }
}

/// `(R)`.
pub struct Deferred;

#[tactic(auto, unfolding(pdp_decode::specs::Decode::operand_of), using(crate::proofs::Reached::reaches, crate::proofs::Reached::stops, crate::proofs::Banks::banks))]
impl AddressingMode for Deferred {
    ghost addressing = { Addressing.Deferred };

    ghost steady = { true };

    ghost sure = { false };

    ghost late = { true };

    #[inline(always)]
    fn address<P: Processor, W: Size>(p: &mut P, _pc: &mut usize, n: u32) -> Result<u16, Halt> {
        Ok(p.reg(n))
    }

    #[inline(always)]
    fn value<P: Processor, W: Size>(p: &mut P, _pc: &mut usize, n: u32) -> Result<u16, Halt> {
        let at = p.reg(n);
        read_at::<P, W>(p, at)
    }

    #[inline(always)]
    fn locate<P: Processor, W: Size>(p: &mut P, _pc: &mut usize, n: u32) -> Result<usize, Halt> {
        let at = p.reg(n);
        place_at::<P, W>(p, at)
    }

    #[inline(always)]
    fn get<P: Processor, W: Size>(p: &P, _n: u32, place: usize) -> Result<u16, Trap> {
        W::load(p, place)
    }

    #[inline(always)]
    fn store<P: Processor, W: Size>(
        p: &mut P,
        _n: u32,
        place: usize,
        made: Made,
    ) -> Result<(), Trap> {
        W::store(p, place, made)
    }

    #[inline(always)]
    fn store_moved<P: Processor, W: Size>(
        p: &mut P,
        _n: u32,
        place: usize,
        made: Made,
    ) -> Result<(), Trap> {
        W::store(p, place, made)
    }
}

/// `(R)+`, where the register grows by the operand's size.
pub struct Autoincrement;

#[tactic(auto, unfolding(pdp_decode::specs::Decode::operand_of), using(crate::proofs::Reached::reaches, crate::proofs::Reached::stops, crate::proofs::Banks::banks))]
impl AddressingMode for Autoincrement {
    ghost addressing = { Addressing.Autoincrement };

    ghost steady = { false };

    ghost sure = { false };

    ghost late = { true };

    #[inline(always)]
    fn address<P: Processor, W: Size>(p: &mut P, _pc: &mut usize, n: u32) -> Result<u16, Halt> {
        let at = p.reg(n);
        p.set_reg(n, at.wrapping_add(W::step()));
        Ok(at)
    }

    #[inline(always)]
    fn value<P: Processor, W: Size>(p: &mut P, _pc: &mut usize, n: u32) -> Result<u16, Halt> {
        let at = p.reg(n);
        let place = place_at::<P, W>(p, at)?;
        p.set_reg(n, at.wrapping_add(W::step()));
        read::<P, W>(p, place)
    }

    #[inline(always)]
    fn locate<P: Processor, W: Size>(p: &mut P, _pc: &mut usize, n: u32) -> Result<usize, Halt> {
        let at = p.reg(n);
        let place = place_at::<P, W>(p, at)?;
        p.set_reg(n, at.wrapping_add(W::step()));
        Ok(place)
    }

    #[inline(always)]
    fn get<P: Processor, W: Size>(p: &P, _n: u32, place: usize) -> Result<u16, Trap> {
        W::load(p, place)
    }

    #[inline(always)]
    fn store<P: Processor, W: Size>(
        p: &mut P,
        _n: u32,
        place: usize,
        made: Made,
    ) -> Result<(), Trap> {
        W::store(p, place, made)
    }

    #[inline(always)]
    fn store_moved<P: Processor, W: Size>(
        p: &mut P,
        _n: u32,
        place: usize,
        made: Made,
    ) -> Result<(), Trap> {
        W::store(p, place, made)
    }
}

/// `-(R)`, likewise.
pub struct Autodecrement;

#[tactic(auto, unfolding(pdp_decode::specs::Decode::operand_of), using(crate::proofs::Reached::reaches, crate::proofs::Reached::stops, crate::proofs::Banks::banks))]
impl AddressingMode for Autodecrement {
    ghost addressing = { Addressing.Autodecrement };

    ghost steady = { false };

    ghost sure = { false };

    ghost late = { true };

    #[inline(always)]
    fn address<P: Processor, W: Size>(p: &mut P, _pc: &mut usize, n: u32) -> Result<u16, Halt> {
        let at = p.reg(n).wrapping_sub(W::step());
        p.set_reg(n, at);
        Ok(at)
    }

    #[inline(always)]
    fn value<P: Processor, W: Size>(p: &mut P, _pc: &mut usize, n: u32) -> Result<u16, Halt> {
        let at = p.reg(n).wrapping_sub(W::step());
        let place = place_at::<P, W>(p, at)?;
        p.set_reg(n, at);
        read::<P, W>(p, place)
    }

    #[inline(always)]
    fn locate<P: Processor, W: Size>(p: &mut P, _pc: &mut usize, n: u32) -> Result<usize, Halt> {
        let at = p.reg(n).wrapping_sub(W::step());
        let place = place_at::<P, W>(p, at)?;
        p.set_reg(n, at);
        Ok(place)
    }

    #[inline(always)]
    fn get<P: Processor, W: Size>(p: &P, _n: u32, place: usize) -> Result<u16, Trap> {
        W::load(p, place)
    }

    #[inline(always)]
    fn store<P: Processor, W: Size>(
        p: &mut P,
        _n: u32,
        place: usize,
        made: Made,
    ) -> Result<(), Trap> {
        W::store(p, place, made)
    }

    #[inline(always)]
    fn store_moved<P: Processor, W: Size>(
        p: &mut P,
        _n: u32,
        place: usize,
        made: Made,
    ) -> Result<(), Trap> {
        W::store(p, place, made)
    }
}

/// `X(R)`.
pub struct Indexed;

#[tactic(auto, unfolding(pdp_decode::specs::Decode::operand_of), using(crate::proofs::Reached::reaches, crate::proofs::Reached::stops, crate::proofs::Banks::banks))]
impl AddressingMode for Indexed {
    ghost addressing = { Addressing.Indexed };

    ghost steady = { true };

    ghost sure = { false };

    ghost late = { true };

    #[inline(always)]
    fn address<P: Processor, W: Size>(p: &mut P, pc: &mut usize, n: u32) -> Result<u16, Halt> {
        let x = next(p, pc)?;
        Ok(p.reg(n).wrapping_add(x))
    }

    #[inline(always)]
    fn value<P: Processor, W: Size>(p: &mut P, pc: &mut usize, n: u32) -> Result<u16, Halt> {
        let x = next(p, pc)?;
        let at = p.reg(n).wrapping_add(x);
        read_at::<P, W>(p, at)
    }

    #[inline(always)]
    fn locate<P: Processor, W: Size>(p: &mut P, pc: &mut usize, n: u32) -> Result<usize, Halt> {
        let x = next(p, pc)?;
        let at = p.reg(n).wrapping_add(x);
        place_at::<P, W>(p, at)
    }

    #[inline(always)]
    fn get<P: Processor, W: Size>(p: &P, _n: u32, place: usize) -> Result<u16, Trap> {
        W::load(p, place)
    }

    #[inline(always)]
    fn store<P: Processor, W: Size>(
        p: &mut P,
        _n: u32,
        place: usize,
        made: Made,
    ) -> Result<(), Trap> {
        W::store(p, place, made)
    }

    #[inline(always)]
    fn store_moved<P: Processor, W: Size>(
        p: &mut P,
        _n: u32,
        place: usize,
        made: Made,
    ) -> Result<(), Trap> {
        W::store(p, place, made)
    }
}

/// `@#a`.
pub struct Absolute;

#[tactic(auto, unfolding(pdp_decode::specs::Decode::operand_of), using(crate::proofs::Reached::reaches, crate::proofs::Reached::stops, crate::proofs::Banks::banks))]
impl AddressingMode for Absolute {
    ghost addressing = { Addressing.Absolute };

    ghost steady = { true };

    ghost sure = { false };

    ghost late = { true };

    #[inline(always)]
    fn address<P: Processor, W: Size>(p: &mut P, pc: &mut usize, _n: u32) -> Result<u16, Halt> {
        next(p, pc)
    }

    #[inline(always)]
    fn value<P: Processor, W: Size>(p: &mut P, pc: &mut usize, _n: u32) -> Result<u16, Halt> {
        let at = next(p, pc)?;
        read_at::<P, W>(p, at)
    }

    #[inline(always)]
    fn locate<P: Processor, W: Size>(p: &mut P, pc: &mut usize, _n: u32) -> Result<usize, Halt> {
        let at = next(p, pc)?;
        place_at::<P, W>(p, at)
    }

    #[inline(always)]
    fn get<P: Processor, W: Size>(p: &P, _n: u32, place: usize) -> Result<u16, Trap> {
        W::load(p, place)
    }

    #[inline(always)]
    fn store<P: Processor, W: Size>(
        p: &mut P,
        _n: u32,
        place: usize,
        made: Made,
    ) -> Result<(), Trap> {
        W::store(p, place, made)
    }

    #[inline(always)]
    fn store_moved<P: Processor, W: Size>(
        p: &mut P,
        _n: u32,
        place: usize,
        made: Made,
    ) -> Result<(), Trap> {
        W::store(p, place, made)
    }
}

/// `A`, at PC plus a word of the program.
pub struct Relative;

#[tactic(auto, unfolding(pdp_decode::specs::Decode::operand_of), using(crate::proofs::Reached::reaches, crate::proofs::Reached::stops, crate::proofs::Banks::banks))]
impl AddressingMode for Relative {
    ghost addressing = { Addressing.Relative };

    ghost steady = { true };

    ghost sure = { false };

    ghost late = { true };

    #[inline(always)]
    fn address<P: Processor, W: Size>(p: &mut P, pc: &mut usize, _n: u32) -> Result<u16, Halt> {
        let x = next(p, pc)?;
        Ok(low_word(*pc).wrapping_add(x))
    }

    #[inline(always)]
    fn value<P: Processor, W: Size>(p: &mut P, pc: &mut usize, _n: u32) -> Result<u16, Halt> {
        let x = next(p, pc)?;
        let at = low_word(*pc).wrapping_add(x);
        read_at::<P, W>(p, at)
    }

    #[inline(always)]
    fn locate<P: Processor, W: Size>(p: &mut P, pc: &mut usize, _n: u32) -> Result<usize, Halt> {
        let x = next(p, pc)?;
        let at = low_word(*pc).wrapping_add(x);
        place_at::<P, W>(p, at)
    }

    #[inline(always)]
    fn get<P: Processor, W: Size>(p: &P, _n: u32, place: usize) -> Result<u16, Trap> {
        W::load(p, place)
    }

    #[inline(always)]
    fn store<P: Processor, W: Size>(
        p: &mut P,
        _n: u32,
        place: usize,
        made: Made,
    ) -> Result<(), Trap> {
        W::store(p, place, made)
    }

    #[inline(always)]
    fn store_moved<P: Processor, W: Size>(
        p: &mut P,
        _n: u32,
        place: usize,
        made: Made,
    ) -> Result<(), Trap> {
        W::store(p, place, made)
    }
}

/// `#n`.
pub struct Immediate;

#[tactic(auto, unfolding(pdp_decode::specs::Decode::operand_of), using(crate::proofs::Reached::reaches, crate::proofs::Reached::stops, crate::proofs::Banks::banks))]
impl AddressingMode for Immediate {
    ghost addressing = { Addressing.Immediate };

    ghost steady = { true };

    ghost sure = { false };

    ghost late = { true };

    #[inline(always)]
    fn address<P: Processor, W: Size>(p: &mut P, pc: &mut usize, _n: u32) -> Result<u16, Halt> {
        let at = low_word(*pc);
        *pc += 2;
        Ok(at)
    }

    #[inline(always)]
    fn value<P: Processor, W: Size>(p: &mut P, pc: &mut usize, _n: u32) -> Result<u16, Halt> {
        let value = W::immediate(p, *pc)?;
        *pc += 2;
        Ok(value)
    }

    #[inline(always)]
    fn locate<P: Processor, W: Size>(p: &mut P, pc: &mut usize, _n: u32) -> Result<usize, Halt> {
        let at = low_word(*pc);
        let place = place_at::<P, W>(p, at)?;
        *pc += 2;
        Ok(place)
    }

    #[inline(always)]
    fn get<P: Processor, W: Size>(p: &P, _n: u32, place: usize) -> Result<u16, Trap> {
        W::load(p, place)
    }

    #[inline(always)]
    fn store<P: Processor, W: Size>(
        p: &mut P,
        _n: u32,
        place: usize,
        made: Made,
    ) -> Result<(), Trap> {
        W::store(p, place, made)
    }

    #[inline(always)]
    fn store_moved<P: Processor, W: Size>(
        p: &mut P,
        _n: u32,
        place: usize,
        made: Made,
    ) -> Result<(), Trap> {
        W::store(p, place, made)
    }
}
