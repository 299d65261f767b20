//! A processor: the registers, the condition codes and the memory of a program as one value.
ghost use Rattle.std.specs.Prelude.{◌≡◌, ◌%◌, ◌<◌, ℕ, length, IfSome, IfOk, IsErr, None};
ghost use Rattle.v6_base.specs.Access.{load_byte, load_word, store_byte, store_word, image_after, answer_of};
ghost use Rattle.pdp_decode.specs.Decode.{reg_of};
ghost use Rattle.pdp_decode.specs.declared.instr.Width.{Width};
ghost use Rattle.pdp_step.specs.Machine.{Machine, reg_in, with_reg, with_codes};
ghost use Rattle.pdp_step.specs.Parts.{IsMissed, IsTrapped, IsLoaded};

use crate::halt::Halt;
use v6_base::Trap;

/// A program's registers, codes and memory. A register is named by a number's low octal digit, and a place in memory by a
/// number of the processor's own, which it gives for an address that is at hand.
pub trait Processor {
    /// The registers, the codes and the image.
    ghost machine: { Self → Machine };

    /// What it is besides these.
    ghost Rest: { Type 0 };

    ghost rest: { Self → Rest };

    /// Whether a number is a place for an operand of that size, and the address of a place.
    ghost IsPlace: { Rest → Width → ℕ → Type 0 };

    ghost address: { Rest → ℕ → ℕ };

    /// That it may happen that an address isn't at hand.
    ghost MayMiss: { Type 0 };

    /// That it may happen that an access of memory traps. Where each place is one that can be read and written, and whatever
    /// would trap isn't at hand, this is empty, and then a row ends or misses.
    ghost MayTrap: { Type 0 };

    fn reg(&self, n: u32) -> u16
        ensures { result ≡ reg_in (machine self.now) (reg_of (n % 8)) };

    fn set_reg(&mut self, n: u32, value: u16)
        ensures machine { machine self.new ≡ with_reg (machine self.old) (reg_of (n % 8)) value }
        ensures rest { rest self.new ≡ rest self.old };

    fn cc(&self) -> u8
        ensures codes { result ≡ (machine self.now).cc }
        ensures small { result < 16 };

    fn set_cc(&mut self, cc: u8)
        requires { cc < 16 }
        ensures machine { machine self.new ≡ with_codes (machine self.old) cc }
        ensures rest { rest self.new ≡ rest self.old };

    /// The word of the program at an address, which is taken modulo 65,536.
    fn program_word(&self, pc: usize) -> Result<u16, Halt>
        ensures word { IsLoaded result (load_word (machine self.now).image (pc % 65536)) }
        ensures missed { IsMissed result → MayMiss }
        ensures trapped { IsTrapped result → MayTrap };

    /// The byte of the program at an address.
    fn program_byte(&self, pc: usize) -> Result<u16, Halt>
        ensures byte { IsLoaded result (load_byte (machine self.now).image (pc % 65536)) }
        ensures small { IfOk result (λ value. value < 256) }
        ensures missed { IsMissed result → MayMiss }
        ensures trapped { IsTrapped result → MayTrap };

    /// The place of the word at an address.
    fn place_of_word(&self, at: u16) -> Option<usize>
        ensures place { IfSome result (λ place. IsPlace (rest self.now) Width.Word place) }
        ensures address { IfSome result (λ place. address (rest self.now) place ≡ at) }
        ensures missed { result ≡ None → MayMiss };

    /// The place of the byte at an address.
    fn place_of_byte(&self, at: u16) -> Option<usize>
        ensures place { IfSome result (λ place. IsPlace (rest self.now) Width.Byte place) }
        ensures address { IfSome result (λ place. address (rest self.now) place ≡ at) }
        ensures missed { result ≡ None → MayMiss };

    fn load_word(&self, place: usize) -> Result<u16, Trap>
        requires { IsPlace (rest self.now) Width.Word place }
        ensures value { result ≡ load_word (machine self.now).image (address (rest self.now) place) }
        ensures trapped { IsErr result → MayTrap };

    fn load_byte(&self, place: usize) -> Result<u8, Trap>
        requires { IsPlace (rest self.now) Width.Byte place }
        ensures value { result ≡ load_byte (machine self.now).image (address (rest self.now) place) }
        ensures trapped { IsErr result → MayTrap };

    fn store_word(&mut self, place: usize, value: u16) -> Result<(), Trap>
        requires { IsPlace (rest self.old) Width.Word place }
        ensures answer { result ≡ answer_of (store_word (machine self.old).image (address (rest self.old) place) value) }
        ensures machine { machine self.new
            ≡ record (machine self.old) {
              image = image_after (machine self.old).image
                  (store_word (machine self.old).image (address (rest self.old) place) value);
            } }
        ensures trapped { IsErr result → MayTrap }
        ensures rest { rest self.new ≡ rest self.old };

    fn store_byte(&mut self, place: usize, value: u8) -> Result<(), Trap>
        requires { IsPlace (rest self.old) Width.Byte place }
        ensures answer { result ≡ answer_of (store_byte (machine self.old).image (address (rest self.old) place) value) }
        ensures machine { machine self.new
            ≡ record (machine self.old) {
              image = image_after (machine self.old).image
                  (store_byte (machine self.old).image (address (rest self.old) place) value);
            } }
        ensures trapped { IsErr result → MayTrap }
        ensures rest { rest self.new ≡ rest self.old };

    /// There are eight registers.
    ghost eight: { (p : Self) → length (machine p).r ≡ 8 };
}
