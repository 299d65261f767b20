//! The sizes of operands: words and bytes, as types.
ghost use Rattle.std.specs.Prelude.{◌≡◌, ◌*◌, ◌%◌, ◌<◌, ◌≤◌, IfOk, IfSome, Ok, None, IsErr};
ghost use Rattle.pdp_decode.specs.declared.instr.Width.{Width};
ghost use Rattle.pdp_decode.specs.declared.instr.Reg.{Reg};
ghost use Rattle.pdp_decode.specs.Decode.{reg_of};
ghost use Rattle.pdp_decode.specs.Handlers.{IsStepped};
ghost use Rattle.pdp_step.specs.Machine.{reg_in, with_reg, with_codes};
ghost use Rattle.pdp_step.specs.Operands.{InRegister, InMemory, step_size, value_at};
ghost use Rattle.pdp_step.specs.Arithmetic.{half, size};
ghost use Rattle.pdp_step.specs.Rows.{merged, stored_result};
ghost use Rattle.pdp_step.specs.After.{finish_of, stored_by};
ghost use Rattle.pdp_step.specs.Parts.{IsMissed, IsTrapped, IsLoaded, value_in, moved_value};

use crate::arithmetic::Made;
use crate::halt::Halt;
use crate::processor::Processor;
use v6_base::Trap;

/// Whether an instruction works on words or on bytes.
pub trait Size {
    ghost width: { Width };

    /// The sign bit.
    fn top() -> u32
        ensures value { result ≡ half width }
        ensures range { (128 ≤ result) × (result ≤ 32768) };

    /// How many numbers there are.
    fn all() -> u32
        ensures value { result ≡ size width }
        ensures twice { result ≡ 2 * half width }
        ensures range { (256 ≤ result) × (result ≤ 65536) };

    /// A sum cut to its size.
    fn cut(sum: u32) -> u16
        ensures value { result ≡ sum % size width }
        ensures small { result < size width };

    /// What modes 2 and 4 step a register by.
    fn stride(n: u32) -> u16
        ensures value { result ≡ step_size width (reg_of (n % 8)) }
        ensures small { result ≤ 2 };

    /// What they step a register by that is stepped by the size.
    fn step() -> u16
        ensures value { (n : Reg) → IsStepped width n → step_size width n ≡ result }
        ensures small { result ≤ 2 };

    /// What a register holds of an operand.
    fn held<P: Processor>(p: &P, n: u32) -> u16
        ensures value { value_at (P.machine p.now) width (InRegister (reg_of (n % 8))) ≡ Ok result }
        ensures small { result < size width };

    /// An operand that is in the program.
    fn immediate<P: Processor>(p: &P, pc: usize) -> Result<u16, Halt>
        ensures value { IsLoaded result (value_in width (P.machine p.now).image (pc % 65536)) }
        ensures small { IfOk result (λ value. value < size width) }
        ensures missed { IsMissed result → P.MayMiss }
        ensures trapped { IsTrapped result → P.MayTrap };

    fn place<P: Processor>(p: &P, at: u16) -> Option<usize>
        ensures place { IfSome result (λ place. P.IsPlace (P.rest p.now) width place) }
        ensures address { IfSome result (λ place. P.address (P.rest p.now) place ≡ at) }
        ensures missed { result ≡ None → P.MayMiss };

    fn load<P: Processor>(p: &P, place: usize) -> Result<u16, Trap>
        requires { P.IsPlace (P.rest p.now) width place }
        ensures value { result ≡ value_in width (P.machine p.now).image (P.address (P.rest p.now) place) }
        ensures small { IfOk result (λ value. value < size width) }
        ensures trapped { IsErr result → P.MayTrap };

    /// A result that goes to memory.
    fn store<P: Processor>(p: &mut P, place: usize, made: Made) -> Result<(), Trap>
        requires place { P.IsPlace (P.rest p.old) width place }
        requires codes { made.cc < 16 }
        requires small { made.value < size width }
        ensures stored { stored_by result (P.machine p.new)
            ≡ finish_of (P.machine p.old).image
            (stored_result (P.machine p.old) width (InMemory (P.address (P.rest p.old) place)) made) }
        ensures trapped { IsErr result → P.MayTrap }
        ensures rest { P.rest p.new ≡ P.rest p.old };

    /// A result that goes to a register; a byte leaves the high byte.
    fn hold<P: Processor>(p: &mut P, n: u32, made: Made)
        requires codes { made.cc < 16 }
        requires small { made.value < size width }
        ensures held { P.machine p.new
            ≡ with_codes (with_reg (P.machine p.old) (reg_of (n % 8))
            (merged width (reg_in (P.machine p.old) (reg_of (n % 8))) made.value)) made.cc }
        ensures rest { P.rest p.new ≡ P.rest p.old };

    /// What was moved to a register: a byte carries its sign on.
    fn hold_moved<P: Processor>(p: &mut P, n: u32, made: Made)
        requires codes { made.cc < 16 }
        requires small { made.value < size width }
        ensures held { P.machine p.new
            ≡ with_codes (with_reg (P.machine p.old) (reg_of (n % 8)) (moved_value width made.value)) made.cc }
        ensures rest { P.rest p.new ≡ P.rest p.old };
}

/// Operands of two bytes.
pub struct Words;

/// Operands of one byte.
pub struct Bytes;

#[tactic(auto, unfolding(crate::specs::Operands::value_at, crate::specs::Operands::word_at, crate::specs::Rows::stored_result, crate::specs::After::finish_of, crate::specs::Instruction::stored))]
impl Size for Words {
    ghost width = { Width.Word };

    #[inline(always)]
    fn top() -> u32 {
        0o100000
    }

    #[inline(always)]
    fn all() -> u32 {
        0o200000
    }

    #[inline(always)]
    fn cut(sum: u32) -> u16 {
        (sum % 0o200000) as u16
    }

    #[inline(always)]
    fn stride(_n: u32) -> u16 {
        2
    }

    #[inline(always)]
    fn step() -> u16 {
        2
    }

    #[inline(always)]
    fn held<P: Processor>(p: &P, n: u32) -> u16 {
        p.reg(n)
    }

    #[inline(always)]
    fn immediate<P: Processor>(p: &P, pc: usize) -> Result<u16, Halt> {
        p.program_word(pc)
    }

    #[inline(always)]
    fn place<P: Processor>(p: &P, at: u16) -> Option<usize> {
        p.place_of_word(at)
    }

    #[inline(always)]
    fn load<P: Processor>(p: &P, place: usize) -> Result<u16, Trap> {
        p.load_word(place)
    }

    #[inline(always)]
    fn store<P: Processor>(p: &mut P, place: usize, made: Made) -> Result<(), Trap> {
        p.set_cc(made.cc);
        p.store_word(place, made.value)
    }

    #[inline(always)]
    fn hold<P: Processor>(p: &mut P, n: u32, made: Made) {
        p.set_cc(made.cc);
        p.set_reg(n, made.value);
    }

    #[inline(always)]
    fn hold_moved<P: Processor>(p: &mut P, n: u32, made: Made) {
        p.set_cc(made.cc);
        p.set_reg(n, made.value);
    }
}

#[tactic(auto, unfolding(pdp_decode::specs::Decode::reg_of, crate::specs::Operands::value_at, crate::specs::Rows::stored_result, crate::specs::After::finish_of, crate::specs::Instruction::stored), using(crate::proofs::Banks::steps_one))]
impl Size for Bytes {
    ghost width = { Width.Byte };

    #[inline(always)]
    fn top() -> u32 {
        0o200
    }

    #[inline(always)]
    fn all() -> u32 {
        0o400
    }

    #[inline(always)]
    fn cut(sum: u32) -> u16 {
        (sum % 0o400) as u16
    }

    #[inline(always)]
    fn stride(n: u32) -> u16 {
        match n % 8 {
            0 => 1,
            1 => 1,
            2 => 1,
            3 => 1,
            4 => 1,
            5 => 1,
            6 => 2,
            _ => 2,
        }
    }

    #[inline(always)]
    fn step() -> u16 {
        1
    }

    #[inline(always)]
    fn held<P: Processor>(p: &P, n: u32) -> u16 {
        p.reg(n) % 256
    }

    #[inline(always)]
    fn immediate<P: Processor>(p: &P, pc: usize) -> Result<u16, Halt> {
        p.program_byte(pc)
    }

    #[inline(always)]
    fn place<P: Processor>(p: &P, at: u16) -> Option<usize> {
        p.place_of_byte(at)
    }

    #[inline(always)]
    fn load<P: Processor>(p: &P, place: usize) -> Result<u16, Trap> {
        Ok(p.load_byte(place)? as u16)
    }

    #[inline(always)]
    fn store<P: Processor>(p: &mut P, place: usize, made: Made) -> Result<(), Trap> {
        p.set_cc(made.cc);
        p.store_byte(place, made.value as u8)
    }

    #[inline(always)]
    fn hold<P: Processor>(p: &mut P, n: u32, made: Made) {
        let old = p.reg(n);
        p.set_cc(made.cc);
        p.set_reg(n, 256 * (old / 256) + made.value);
    }

    #[inline(always)]
    fn hold_moved<P: Processor>(p: &mut P, n: u32, made: Made) {
        let value = if made.value >= 0o200 {
            made.value + 0o177400
        } else {
            made.value
        };
        p.set_cc(made.cc);
        p.set_reg(n, value);
    }
}
