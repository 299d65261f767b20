//! The rows of the instructions with operands, each over any addressing modes: an operand is formed and read, a result is made,
//! and stored last.
ghost use Rattle.std.specs.Prelude.{◌≡◌, ◌||◌, ◌&&◌, ◌/◌, ◌%◌, ◌<◌, ◌≤◌, IsTrue, false, Ok};
ghost use Rattle.v6_base.specs.Access.{then_do};
ghost use Rattle.pdp_decode.specs.Decode.{operand_of, reg_of};
ghost use Rattle.pdp_decode.specs.Handlers.{IsAddressed};
ghost use Rattle.pdp_decode.specs.declared.instr.Width.{Width};
ghost use Rattle.pdp_step.specs.Machine.{reg_in, carry_in};
ghost use Rattle.pdp_step.specs.Operands.{formed};
ghost use Rattle.pdp_step.specs.Arithmetic.{size, swapped, result_of, combine_of, ExclusiveOr};
ghost use Rattle.pdp_step.specs.Rows.{moved_result, moved, compared, joined, modified, replaced, tested, sign_made};
ghost use Rattle.pdp_step.specs.Instruction.{go};
ghost use Rattle.pdp_step.specs.After.{finished};
ghost use Rattle.pdp_step.specs.Parts.{at_pc, IsMissed, IsTrapped, Ends};

use crate::addressing_mode::{AddressingMode, set_pc};
use crate::alteration::{Alteration, Exchanging, Same, With};
use crate::arithmetic::{Made, outcome};
use crate::halt::{Halt, halted};
use crate::operation::{BitDifference, Operation};
use crate::processor::Processor;
use crate::regs::{carry, codes, pack};
use crate::size::{Size, Words};
use std::marker::PhantomData;

/// Puts what is moved to the destination, which isn't read.
#[inline(always)]
pub fn put_moved<P: Processor, W: Size, D: AddressingMode>(
    p: &mut P,
    from: usize,
    word: u32,
    value: u16,
) -> Result<(), Halt>
    requires dest { IsAddressed D.addressing W.width (operand_of word) }
    requires small { value < size W.width }
    requires room { from ≤ 200000 }
    ensures row { Ends result (P.machine p.new)
        (finished (P.machine p.old).image
        (go (then_do (formed (at_pc (P.machine p.old) from) W.width (operand_of word).mode (operand_of word).reg)
        (λ dest. Ok (moved_result dest.machine W.width dest.location
        (result_of W.width value false (carry_in (P.machine p.old)))))))) }
    ensures kept { IsTrue D.late → IsMissed result → P.machine p.new ≡ P.machine p.old }
    ensures sure { IsTrue D.sure → IsMissed result → ⊥ }
    ensures image { IsMissed result → (P.machine p.new).image ≡ (P.machine p.old).image }
    ensures missed { IsMissed result → P.MayMiss }
    ensures trapped { IsTrapped result → P.MayTrap }
    ensures rest { P.rest p.new ≡ P.rest p.old }
{
    let mut pc = from;
    match D::locate::<P, W>(p, &mut pc, word) {
        Ok(place) => {
            set_pc(p, pc);
            let made = outcome::<W>(value, false, carry(p.cc()));
            halted(D::store_moved::<P, W>(p, word, place, made))
        }
        Err(halt) => Err(halt),
    }
}

/// MOV and MOVB.
#[inline(always)]
pub fn move_to<P: Processor, W: Size, S: AddressingMode, D: AddressingMode>(
    p: &mut P,
    from: usize,
    word: u32,
) -> Result<(), Halt>
    requires source { IsAddressed S.addressing W.width (operand_of (word / 64)) }
    requires dest { IsAddressed D.addressing W.width (operand_of word) }
    requires room { from ≤ 65538 }
    ensures row { Ends result (P.machine p.new)
        (finished (P.machine p.old).image
        (go (moved (at_pc (P.machine p.old) from) W.width (operand_of (word / 64)) (operand_of word)))) }
    ensures kept { IsTrue (S.late && (D.late && (S.steady || D.sure))) → IsMissed result → P.machine p.new ≡ P.machine p.old }
    ensures image { IsMissed result → (P.machine p.new).image ≡ (P.machine p.old).image }
    ensures missed { IsMissed result → P.MayMiss }
    ensures trapped { IsTrapped result → P.MayTrap }
    ensures rest { P.rest p.new ≡ P.rest p.old }
{
    let mut pc = from;
    match S::value::<P, W>(p, &mut pc, word / 64) {
        Ok(value) => put_moved::<P, W, D>(p, pc, word, value),
        Err(halt) => Err(halt),
    }
}

/// Reads the destination, and keeps the codes alone of what is made of it.
#[inline(always)]
pub fn test_with<P: Processor, W: Size, D: AddressingMode, A: Alteration>(
    p: &mut P,
    from: usize,
    word: u32,
    alteration: &A,
) -> Result<(), Halt>
    requires dest { IsAddressed D.addressing W.width (operand_of word) }
    requires size { A.IsFor alteration.now W.width }
    requires room { from ≤ 200000 }
    ensures row { Ends result (P.machine p.new)
        (finished (P.machine p.old).image
        (go (tested (at_pc (P.machine p.old) from) W.width (operand_of word)
        (A.made alteration.now W.width (carry_in (P.machine p.old)))))) }
    ensures kept { IsTrue D.late → IsMissed result → P.machine p.new ≡ P.machine p.old }
    ensures sure { IsTrue D.sure → IsMissed result → ⊥ }
    ensures image { IsMissed result → (P.machine p.new).image ≡ (P.machine p.old).image }
    ensures missed { IsMissed result → P.MayMiss }
    ensures trapped { IsTrapped result → P.MayTrap }
    ensures rest { P.rest p.new ≡ P.rest p.old }
{
    let mut pc = from;
    match D::value::<P, W>(p, &mut pc, word) {
        Ok(dest) => {
            let made = alteration.make::<W>(dest, carry(p.cc()));
            set_pc(p, pc);
            p.set_cc(made.cc);
            Ok(())
        }
        Err(halt) => Err(halt),
    }
}

/// CMP and BIT.
#[inline(always)]
pub fn compare<P: Processor, W: Size, S: AddressingMode, D: AddressingMode, O: Operation>(
    p: &mut P,
    from: usize,
    word: u32,
) -> Result<(), Halt>
    requires source { IsAddressed S.addressing W.width (operand_of (word / 64)) }
    requires dest { IsAddressed D.addressing W.width (operand_of word) }
    requires room { from ≤ 65538 }
    ensures row { Ends result (P.machine p.new)
        (finished (P.machine p.old).image
        (go (compared (at_pc (P.machine p.old) from) W.width (operand_of (word / 64)) (operand_of word)
        (O.made W.width (carry_in (P.machine p.old)))))) }
    ensures kept { IsTrue (S.late && (D.late && (S.steady || D.sure))) → IsMissed result → P.machine p.new ≡ P.machine p.old }
    ensures image { IsMissed result → (P.machine p.new).image ≡ (P.machine p.old).image }
    ensures missed { IsMissed result → P.MayMiss }
    ensures trapped { IsTrapped result → P.MayTrap }
    ensures rest { P.rest p.new ≡ P.rest p.old }
{
    let mut pc = from;
    match S::value::<P, W>(p, &mut pc, word / 64) {
        Ok(source) => {
            let with = With::<O> {
                source,
                operation: PhantomData,
            };
            test_with::<P, W, D, With<O>>(p, pc, word, &with)
        }
        Err(halt) => Err(halt),
    }
}

/// Reads the destination, and puts there what is made of it.
#[inline(always)]
pub fn alter_with<P: Processor, W: Size, D: AddressingMode, A: Alteration>(
    p: &mut P,
    from: usize,
    word: u32,
    alteration: &A,
) -> Result<(), Halt>
    requires dest { IsAddressed D.addressing W.width (operand_of word) }
    requires size { A.IsFor alteration.now W.width }
    requires room { from ≤ 200000 }
    ensures row { Ends result (P.machine p.new)
        (finished (P.machine p.old).image
        (go (modified (at_pc (P.machine p.old) from) W.width (operand_of word)
        (A.made alteration.now W.width (carry_in (P.machine p.old)))))) }
    ensures kept { IsTrue D.late → IsMissed result → P.machine p.new ≡ P.machine p.old }
    ensures sure { IsTrue D.sure → IsMissed result → ⊥ }
    ensures image { IsMissed result → (P.machine p.new).image ≡ (P.machine p.old).image }
    ensures missed { IsMissed result → P.MayMiss }
    ensures trapped { IsTrapped result → P.MayTrap }
    ensures rest { P.rest p.new ≡ P.rest p.old }
{
    let mut pc = from;
    match D::locate::<P, W>(p, &mut pc, word) {
        Ok(place) => {
            set_pc(p, pc);
            match D::get::<P, W>(p, word, place) {
                Ok(dest) => {
                    let made = alteration.make::<W>(dest, carry(p.cc()));
                    halted(D::store::<P, W>(p, word, place, made))
                }
                Err(trap) => Err(Halt::Trapped(trap)),
            }
        }
        Err(halt) => Err(halt),
    }
}

/// BIC, BIS, ADD and SUB.
#[inline(always)]
pub fn join<P: Processor, W: Size, S: AddressingMode, D: AddressingMode, O: Operation>(
    p: &mut P,
    from: usize,
    word: u32,
) -> Result<(), Halt>
    requires source { IsAddressed S.addressing W.width (operand_of (word / 64)) }
    requires dest { IsAddressed D.addressing W.width (operand_of word) }
    requires room { from ≤ 65538 }
    ensures row { Ends result (P.machine p.new)
        (finished (P.machine p.old).image
        (go (joined (at_pc (P.machine p.old) from) W.width (operand_of (word / 64)) (operand_of word)
        (O.made W.width (carry_in (P.machine p.old)))))) }
    ensures kept { IsTrue (S.late && (D.late && (S.steady || D.sure))) → IsMissed result → P.machine p.new ≡ P.machine p.old }
    ensures image { IsMissed result → (P.machine p.new).image ≡ (P.machine p.old).image }
    ensures missed { IsMissed result → P.MayMiss }
    ensures trapped { IsTrapped result → P.MayTrap }
    ensures rest { P.rest p.new ≡ P.rest p.old }
{
    let mut pc = from;
    match S::value::<P, W>(p, &mut pc, word / 64) {
        Ok(source) => {
            let with = With::<O> {
                source,
                operation: PhantomData,
            };
            alter_with::<P, W, D, With<O>>(p, pc, word, &with)
        }
        Err(halt) => Err(halt),
    }
}

/// XOR: its register is read first.
#[inline(always)]
pub fn exclusive_or<P: Processor, S: AddressingMode, D: AddressingMode>(
    p: &mut P,
    from: usize,
    word: u32,
) -> Result<(), Halt>
    requires source { IsAddressed S.addressing Width.Word (operand_of (word / 64 % 8)) }
    requires dest { IsAddressed D.addressing Width.Word (operand_of word) }
    requires room { from ≤ 65538 }
    ensures row { Ends result (P.machine p.new)
        (finished (P.machine p.old).image
        (go (modified (at_pc (P.machine p.old) from) Width.Word (operand_of word)
        (combine_of ExclusiveOr Width.Word (carry_in (P.machine p.old))
        (reg_in (at_pc (P.machine p.old) from) (reg_of (word / 64 % 8))))))) }
    ensures kept { IsTrue (S.late && (D.late && (S.steady || D.sure))) → IsMissed result → P.machine p.new ≡ P.machine p.old }
    ensures image { IsMissed result → (P.machine p.new).image ≡ (P.machine p.old).image }
    ensures missed { IsMissed result → P.MayMiss }
    ensures trapped { IsTrapped result → P.MayTrap }
    ensures rest { P.rest p.new ≡ P.rest p.old }
{
    let mut pc = from;
    match S::value::<P, Words>(p, &mut pc, word / 64 % 8) {
        Ok(source) => {
            let with = With::<BitDifference> {
                source,
                operation: PhantomData,
            };
            alter_with::<P, Words, D, With<BitDifference>>(p, pc, word, &with)
        }
        Err(halt) => Err(halt),
    }
}

/// A row that changes its one operand.
#[inline(always)]
pub fn modify<P: Processor, W: Size, D: AddressingMode, A: Alteration>(
    p: &mut P,
    from: usize,
    word: u32,
    alteration: &A,
) -> Result<(), Halt>
    requires dest { IsAddressed D.addressing W.width (operand_of word) }
    requires size { A.IsFor alteration.now W.width }
    requires room { from ≤ 65538 }
    ensures row { Ends result (P.machine p.new)
        (finished (P.machine p.old).image
        (go (modified (at_pc (P.machine p.old) from) W.width (operand_of word)
        (A.made alteration.now W.width (carry_in (P.machine p.old)))))) }
    ensures kept { IsTrue D.late → IsMissed result → P.machine p.new ≡ P.machine p.old }
    ensures image { IsMissed result → (P.machine p.new).image ≡ (P.machine p.old).image }
    ensures missed { IsMissed result → P.MayMiss }
    ensures trapped { IsTrapped result → P.MayTrap }
    ensures rest { P.rest p.new ≡ P.rest p.old }
{
    alter_with::<P, W, D, A>(p, from, word, alteration)
}

/// SWAB.
#[inline(always)]
pub fn exchange<P: Processor, D: AddressingMode>(
    p: &mut P,
    from: usize,
    word: u32,
) -> Result<(), Halt>
    requires dest { IsAddressed D.addressing Width.Word (operand_of word) }
    requires room { from ≤ 65538 }
    ensures row { Ends result (P.machine p.new)
        (finished (P.machine p.old).image (go (modified (at_pc (P.machine p.old) from) Width.Word (operand_of word) swapped))) }
    ensures kept { IsTrue D.late → IsMissed result → P.machine p.new ≡ P.machine p.old }
    ensures image { IsMissed result → (P.machine p.new).image ≡ (P.machine p.old).image }
    ensures missed { IsMissed result → P.MayMiss }
    ensures trapped { IsTrapped result → P.MayTrap }
    ensures rest { P.rest p.new ≡ P.rest p.old }
{
    alter_with::<P, Words, D, Exchanging>(p, from, word, &Exchanging)
}

/// TST and TSTB.
#[inline(always)]
pub fn test<P: Processor, W: Size, D: AddressingMode>(
    p: &mut P,
    from: usize,
    word: u32,
) -> Result<(), Halt>
    requires dest { IsAddressed D.addressing W.width (operand_of word) }
    requires room { from ≤ 65538 }
    ensures row { Ends result (P.machine p.new)
        (finished (P.machine p.old).image
        (go (tested (at_pc (P.machine p.old) from) W.width (operand_of word) (λ x. result_of W.width x false false)))) }
    ensures kept { IsTrue D.late → IsMissed result → P.machine p.new ≡ P.machine p.old }
    ensures image { IsMissed result → (P.machine p.new).image ≡ (P.machine p.old).image }
    ensures missed { IsMissed result → P.MayMiss }
    ensures trapped { IsTrapped result → P.MayTrap }
    ensures rest { P.rest p.new ≡ P.rest p.old }
{
    test_with::<P, W, D, Same>(p, from, word, &Same)
}

// Puts a result to the destination, which isn't read.
#[inline(always)]
fn replace<P: Processor, W: Size, D: AddressingMode>(
    p: &mut P,
    from: usize,
    word: u32,
    made: Made,
) -> Result<(), Halt>
    requires dest { IsAddressed D.addressing W.width (operand_of word) }
    requires codes { made.cc < 16 }
    requires small { made.value < size W.width }
    requires room { from ≤ 65538 }
    ensures row { Ends result (P.machine p.new)
        (finished (P.machine p.old).image (go (replaced (at_pc (P.machine p.old) from) W.width (operand_of word) made))) }
    ensures kept { IsTrue D.late → IsMissed result → P.machine p.new ≡ P.machine p.old }
    ensures image { IsMissed result → (P.machine p.new).image ≡ (P.machine p.old).image }
    ensures missed { IsMissed result → P.MayMiss }
    ensures trapped { IsTrapped result → P.MayTrap }
    ensures rest { P.rest p.new ≡ P.rest p.old }
{
    let mut pc = from;
    match D::locate::<P, W>(p, &mut pc, word) {
        Ok(place) => {
            set_pc(p, pc);
            halted(D::store::<P, W>(p, word, place, made))
        }
        Err(halt) => Err(halt),
    }
}

/// CLR and CLRB.
#[inline(always)]
pub fn clear<P: Processor, W: Size, D: AddressingMode>(
    p: &mut P,
    from: usize,
    word: u32,
) -> Result<(), Halt>
    requires dest { IsAddressed D.addressing W.width (operand_of word) }
    requires room { from ≤ 65538 }
    ensures row { Ends result (P.machine p.new)
        (finished (P.machine p.old).image
        (go (replaced (at_pc (P.machine p.old) from) W.width (operand_of word) (result_of W.width 0 false false)))) }
    ensures kept { IsTrue D.late → IsMissed result → P.machine p.new ≡ P.machine p.old }
    ensures image { IsMissed result → (P.machine p.new).image ≡ (P.machine p.old).image }
    ensures missed { IsMissed result → P.MayMiss }
    ensures trapped { IsTrapped result → P.MayTrap }
    ensures rest { P.rest p.new ≡ P.rest p.old }
{
    replace::<P, W, D>(p, from, word, outcome::<W>(0, false, false))
}

// What SXT writes.
#[inline(always)]
fn sign(cc: u8) -> Made
    ensures made { result ≡ sign_made cc }
    ensures codes { result.cc < 16 }
{
    let k = codes(cc);
    let value = if k.n { 65535 } else { 0 };
    Made {
        value,
        cc: pack(k.n, !k.n, false, k.c),
    }
}

/// SXT.
#[inline(always)]
pub fn extend_sign<P: Processor, D: AddressingMode>(
    p: &mut P,
    from: usize,
    word: u32,
) -> Result<(), Halt>
    requires dest { IsAddressed D.addressing Width.Word (operand_of word) }
    requires room { from ≤ 65538 }
    ensures row { Ends result (P.machine p.new)
        (finished (P.machine p.old).image
        (go (replaced (at_pc (P.machine p.old) from) Width.Word (operand_of word) (sign_made (P.machine p.old).cc)))) }
    ensures kept { IsTrue D.late → IsMissed result → P.machine p.new ≡ P.machine p.old }
    ensures image { IsMissed result → (P.machine p.new).image ≡ (P.machine p.old).image }
    ensures missed { IsMissed result → P.MayMiss }
    ensures trapped { IsTrapped result → P.MayTrap }
    ensures rest { P.rest p.new ≡ P.rest p.old }
{
    let made = sign(p.cc());
    replace::<P, Words, D>(p, from, word, made)
}
