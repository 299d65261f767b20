//! An operand in a register.
ghost use Rattle.std.specs.Prelude.{true};
ghost use Rattle.pdp_decode.specs.declared.addressing.Addressing.{Addressing};

use crate::addressing_mode::AddressingMode;
use crate::arithmetic::Made;
use crate::halt::Halt;
use crate::processor::Processor;
use crate::size::Size;
use v6_base::Trap;

/// `R`: another register than PC.
pub struct Register;

#[tactic(auto, unfolding(pdp_decode::specs::Decode::operand_of, crate::specs::Operands::formed, crate::specs::Operands::fetched), using(crate::proofs::Banks::banks))]
impl AddressingMode for Register {
    ghost addressing = { Addressing.Register };

    ghost steady = { true };

    ghost sure = { true };

    ghost late = { true };

    fn address<P: Processor, W: Size>(p: &mut P, pc: &mut usize, n: u32) -> Result<u16, Halt> {
        Err(Halt::Missed)
    }

    #[inline(always)]
    fn value<P: Processor, W: Size>(p: &mut P, pc: &mut usize, n: u32) -> Result<u16, Halt> {
        Ok(W::held(p, n))
    }

    #[inline(always)]
    fn locate<P: Processor, W: Size>(p: &mut P, pc: &mut usize, n: u32) -> Result<usize, Halt> {
        Ok(0)
    }

    #[inline(always)]
    fn get<P: Processor, W: Size>(p: &P, n: u32, place: usize) -> Result<u16, Trap> {
        Ok(W::held(p, n))
    }

    #[inline(always)]
    fn store<P: Processor, W: Size>(
        p: &mut P,
        n: u32,
        place: usize,
        made: Made,
    ) -> Result<(), Trap> {
        W::hold(p, n, made);
        Ok(())
    }

    #[inline(always)]
    fn store_moved<P: Processor, W: Size>(
        p: &mut P,
        n: u32,
        place: usize,
        made: Made,
    ) -> Result<(), Trap> {
        W::hold_moved(p, n, made);
        Ok(())
    }
}
