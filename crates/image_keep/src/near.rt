//! The process that executes instructions, as a processor over the bytes in which it stands.
ghost use Rattle.std.specs.Prelude.{◌≡◌, ◌%◌, ◌<◌, length};
ghost use Rattle.pdp_decode.specs.Numbers.{reg_code};
ghost use Rattle.pdp_decode.specs.Decode.{reg_of};
ghost use Rattle.image_keep.specs.Standing.{StandsIn};
ghost use Rattle.image_keep.specs.Near.{StandsWith, IsStated};

use crate::standing::{
    Standing, codes, load_byte, load_word, program_byte, program_word, reg, set_codes, set_reg,
    store_byte, store_word,
};
use pdp_step::{Halt, Processor};
use v6_base::Trap;

/// The bytes in which a process stands, with its registers and codes in front of its u area.
#[derive(Drop)]
pub(crate) struct Near<'a> {
    core: &'a mut [u8],
    standing: &'a Standing,
    /// Where its u area stands.
    at: usize,
    ghost place: { at ≡ standing.now.area },
    ghost stands: { StandsIn (length core.now) standing.now },
    ghost stated: { IsStated core.now standing.now.area },
}

/// The process that stands there.
#[inline(always)]
pub(crate) fn processor<'a>(core: &'a mut [u8], standing: &'a Standing) -> Near<'a>
    requires { StandsWith core.old standing.now }
    ensures core { result.core.now ≡ core.entry.now }
    ensures core_loan { result.core.ghost_name ≡ core.entry.ghost_name }
    ensures standing { result.standing.now ≡ standing.now }
{
    Near {
        core,
        standing,
        at: standing.area,
    }
}

// The index of a register that a number's low octal digit names.
#[inline(always)]
#[tactic(auto, unfolding(pdp_decode::specs::Decode::reg_of))]
fn index(n: u32) -> usize
    ensures code { result ≡ reg_code (reg_of (n % 8)) }
    ensures small { result < 8 }
{
    (n % 8) as usize
}

#[tactic(auto, using(crate::proofs::NearParts::near))]
impl Processor for Near<'_> {
    ghost use Rattle.image_keep.specs.Near.{standing_machine, around, Beside, IsPlaceFor};
    ghost use Rattle.image_keep.specs.Standing.{address};
    ghost use Rattle.fs_codec.proofs.WordsLemmas.{length-words};

    ghost machine = { λ p. standing_machine p.core.now p.standing.now };

    ghost Rest = { Beside };

    ghost rest = { λ p. record { standing = p.standing.now; bytes = p.core.ghost_name; around = around p.core.now p.standing.now } };

    ghost IsPlace = { IsPlaceFor };

    ghost address = { λ b place. address b.standing place };

    ghost MayMiss = { Unit {0} };

    ghost MayTrap = { ⊥ };

    #[inline(always)]
    fn reg(&self, n: u32) -> u16 {
        reg(self.core, self.at, index(n))
    }

    #[inline(always)]
    fn set_reg(&mut self, n: u32, value: u16) {
        set_reg(self.core, self.at, index(n), value);
    }

    #[inline(always)]
    fn cc(&self) -> u8 {
        codes(self.core, self.at)
    }

    #[inline(always)]
    fn set_cc(&mut self, cc: u8) {
        set_codes(self.core, self.at, cc);
    }

    #[inline(always)]
    fn program_word(&self, pc: usize) -> Result<u16, Halt> {
        match program_word(self.core, self.standing, pc) {
            Some(word) => Ok(word),
            None => Err(Halt::Missed),
        }
    }

    #[inline(always)]
    fn program_byte(&self, pc: usize) -> Result<u16, Halt> {
        match program_byte(self.core, self.standing, pc) {
            Some(byte) => Ok(u16::from(byte)),
            None => Err(Halt::Missed),
        }
    }

    #[inline(always)]
    fn place_of_word(&self, at: u16) -> Option<usize> {
        self.standing.place_of_word(at)
    }

    #[inline(always)]
    fn place_of_byte(&self, at: u16) -> Option<usize> {
        self.standing.place_of_byte(at)
    }

    #[inline(always)]
    fn load_word(&self, place: usize) -> Result<u16, Trap> {
        Ok(load_word(self.core, self.standing, place))
    }

    #[inline(always)]
    fn load_byte(&self, place: usize) -> Result<u8, Trap> {
        Ok(load_byte(self.core, self.standing, place))
    }

    #[inline(always)]
    fn store_word(&mut self, place: usize, value: u16) -> Result<(), Trap> {
        store_word(self.core, self.standing, place, value);
        Ok(())
    }

    #[inline(always)]
    fn store_byte(&mut self, place: usize, value: u8) -> Result<(), Trap> {
        store_byte(self.core, self.standing, place, value);
        Ok(())
    }

    ghost eight = { λ p. length-words p.core.now p.standing.now.area 8 };
}
