//! The registers of a program beside its memory, as one processor.
ghost use Rattle.std.specs.Prelude.{◌≡◌, ◌<◌, ◌%◌, length};
ghost use Rattle.pdp_decode.specs.Numbers.{reg_code};
ghost use Rattle.pdp_decode.specs.Decode.{reg_of};

use crate::halt::Halt;
use crate::processor::Processor;
use crate::regs::Regs;
use v6_base::{Space, Trap};

/// Registers with a memory, which has an answer for each address: nothing is missed.
#[derive(Drop)]
pub struct Pair<'a, S: Space> {
    pub regs: Regs,
    pub space: &'a mut S,
    ghost eight: { length regs.r ≡ 8 },
}

/// The registers that there are, beside the memory.
#[inline(always)]
pub fn beside<'a, S: Space>(regs: &Regs, space: &'a mut S) -> Pair<'a, S>
    ensures regs { result.regs ≡ regs.now }
    ensures space { result.space.now ≡ space.entry.now }
    ensures loan { result.space.ghost_name ≡ space.entry.ghost_name }
{
    Pair { regs: *regs, space }
}

// The index of a register that a number's low octal digit names.
#[inline(always)]
#[tactic(auto, unfolding(pdp_decode::specs::Decode::reg_of))]
fn index(n: u32) -> usize
    ensures code { result ≡ reg_code (reg_of (n % 8)) }
    ensures small { result < 8 }
{
    (n % 8) as usize
}

impl<S: Space> Processor for Pair<'_, S> {
    ghost use Rattle.pdp_step.specs.Machine.{machine_of};
    ghost use Rattle.pdp_step.specs.Held.{Held};

    ghost machine = { λ p. machine_of p.regs (S.image p.space.now) };

    ghost Rest = { Held S.Rest };

    ghost rest = { λ p. record { space = S.rest p.space.now; loan = p.space.ghost_name } };

    ghost IsPlace = { λ _ _ place. place < 65536 };

    ghost address = { λ _ place. place };

    ghost MayMiss = { ⊥ };

    ghost MayTrap = { Unit {0} };

    #[inline(always)]
    fn reg(&self, n: u32) -> u16 {
        self.regs.r[index(n)]
    }

    #[inline(always)]
    fn set_reg(&mut self, n: u32, value: u16) {
        self.regs.r[index(n)] = value;
    }

    #[inline(always)]
    fn cc(&self) -> u8 {
        self.regs.cc
    }

    #[inline(always)]
    fn set_cc(&mut self, cc: u8) {
        self.regs.cc = cc;
    }

    #[inline(always)]
    fn program_word(&self, pc: usize) -> Result<u16, Halt> {
        match self.space.load_word((pc % 65536) as u16) {
            Ok(word) => Ok(word),
            Err(trap) => Err(Halt::Trapped(trap)),
        }
    }

    #[inline(always)]
    fn program_byte(&self, pc: usize) -> Result<u16, Halt> {
        match self.space.load_byte((pc % 65536) as u16) {
            Ok(byte) => Ok(byte as u16),
            Err(trap) => Err(Halt::Trapped(trap)),
        }
    }

    #[inline(always)]
    fn place_of_word(&self, at: u16) -> Option<usize> {
        Some(at as usize)
    }

    #[inline(always)]
    fn place_of_byte(&self, at: u16) -> Option<usize> {
        Some(at as usize)
    }

    #[inline(always)]
    fn load_word(&self, place: usize) -> Result<u16, Trap> {
        self.space.load_word(place as u16)
    }

    #[inline(always)]
    fn load_byte(&self, place: usize) -> Result<u8, Trap> {
        self.space.load_byte(place as u16)
    }

    #[inline(always)]
    fn store_word(&mut self, place: usize, value: u16) -> Result<(), Trap> {
        self.space.store_word(place as u16, value)
    }

    #[inline(always)]
    fn store_byte(&mut self, place: usize, value: u8) -> Result<(), Trap> {
        self.space.store_byte(place as u16, value)
    }

    ghost eight = { λ p. p.eight };
}
