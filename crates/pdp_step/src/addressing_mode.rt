//! Addressing modes as types: a row is built for each pair of them that is common, and once for any mode.
ghost use Rattle.std.specs.Prelude.{◌≡◌, ◌≢◌, ◌+◌, ◌%◌, ◌<◌, ◌≤◌, Bool, IsTrue, IfOk, IfErr, IsErr};
ghost use Rattle.pdp_decode.specs.declared.instr.Mode.{Mode};
ghost use Rattle.pdp_decode.specs.declared.addressing.Addressing.{Addressing};
ghost use Rattle.pdp_decode.specs.Decode.{operand_of};
ghost use Rattle.pdp_decode.specs.Handlers.{IsAddressed};
ghost use Rattle.v6_base.specs.Access.{load_word};
ghost use Rattle.pdp_step.specs.Operands.{at_memory, value_at, formed, fetched};
ghost use Rattle.pdp_step.specs.Arithmetic.{size};
ghost use Rattle.pdp_step.specs.Rows.{stored_result, moved_result};
ghost use Rattle.pdp_step.specs.After.{finish_of, stored_by};
ghost use Rattle.pdp_step.specs.Parts.{at_pc, location_at, IsMissed, IsTrapped, IsLoaded, IsSource, IsReached, IsLocated};

use crate::arithmetic::Made;
use crate::halt::Halt;
use crate::processor::Processor;
use crate::size::Size;
use v6_base::Trap;

/// An addressing mode, as a way to an operand. `pc` is where the program goes on, while PC itself is set last; `n` is a
/// number whose two low octal digits are the operand's.
pub trait AddressingMode {
    ghost addressing: { Addressing };

    /// That it leaves the registers.
    ghost steady: { Bool };

    /// That it is always at hand.
    ghost sure: { Bool };

    /// That nothing has changed where it isn't at hand.
    ghost late: { Bool };

    /// Forms the address. An operand in a register has none, and is as one that isn't at hand.
    fn address<P: Processor, W: Size>(p: &mut P, pc: &mut usize, n: u32) -> Result<u16, Halt>
        requires way { IsAddressed addressing W.width (operand_of n) }
        requires memory { (operand_of n).mode ≡ Mode.Register → P.MayMiss }
        requires room { pc.old ≤ 1000000 }
        ensures formed { IsReached result (at_pc (P.machine p.new) pc.new)
            (formed (at_pc (P.machine p.old) pc.old) W.width (operand_of n).mode (operand_of n).reg) }
        ensures image { (P.machine p.new).image ≡ (P.machine p.old).image }
        ensures codes { (P.machine p.new).cc ≡ (P.machine p.old).cc }
        ensures steady { IsTrue steady → P.machine p.new ≡ P.machine p.old }
        ensures kept { IsTrue late → IsMissed result → P.machine p.new ≡ P.machine p.old }
        ensures missed { IsMissed result → P.MayMiss }
        ensures trapped { IsTrapped result → P.MayTrap }
        ensures within { pc.new ≤ pc.old + 65536 }
        ensures rest { P.rest p.new ≡ P.rest p.old };

    /// Forms the operand and reads it.
    fn value<P: Processor, W: Size>(p: &mut P, pc: &mut usize, n: u32) -> Result<u16, Halt>
        requires way { IsAddressed addressing W.width (operand_of n) }
        requires room { pc.old ≤ 1000000 }
        ensures source { IsSource result (at_pc (P.machine p.new) pc.new)
            (fetched (at_pc (P.machine p.old) pc.old) W.width (operand_of n)) }
        ensures small { IfOk result (λ value. value < size W.width) }
        ensures image { (P.machine p.new).image ≡ (P.machine p.old).image }
        ensures codes { (P.machine p.new).cc ≡ (P.machine p.old).cc }
        ensures steady { IsTrue steady → P.machine p.new ≡ P.machine p.old }
        ensures kept { IsTrue late → IsMissed result → P.machine p.new ≡ P.machine p.old }
        ensures sure { IsTrue sure → IsMissed result → ⊥ }
        ensures missed { IsMissed result → P.MayMiss }
        ensures trapped { IsTrapped result → P.MayTrap }
        ensures within { pc.new ≤ pc.old + 65536 }
        ensures rest { P.rest p.new ≡ P.rest p.old };

    /// Forms the operand, which is then read or written.
    fn locate<P: Processor, W: Size>(p: &mut P, pc: &mut usize, n: u32) -> Result<usize, Halt>
        requires way { IsAddressed addressing W.width (operand_of n) }
        requires room { pc.old ≤ 1000000 }
        ensures formed { IsLocated result
            (λ place. location_at (operand_of n).mode (operand_of n).reg (P.address (P.rest p.new) place))
            (at_pc (P.machine p.new) pc.new)
            (formed (at_pc (P.machine p.old) pc.old) W.width (operand_of n).mode (operand_of n).reg) }
        ensures place { (operand_of n).mode ≢ Mode.Register → IfOk result (λ place. P.IsPlace (P.rest p.new) W.width place) }
        ensures image { (P.machine p.new).image ≡ (P.machine p.old).image }
        ensures codes { (P.machine p.new).cc ≡ (P.machine p.old).cc }
        ensures kept { IsTrue late → IsMissed result → P.machine p.new ≡ P.machine p.old }
        ensures sure { IsTrue sure → IsMissed result → ⊥ }
        ensures missed { IsMissed result → P.MayMiss }
        ensures trapped { IsTrapped result → P.MayTrap }
        ensures within { pc.new ≤ pc.old + 65536 }
        ensures rest { P.rest p.new ≡ P.rest p.old };

    /// Reads the operand at its place.
    fn get<P: Processor, W: Size>(p: &P, n: u32, place: usize) -> Result<u16, Trap>
        requires way { IsAddressed addressing W.width (operand_of n) }
        requires place { (operand_of n).mode ≢ Mode.Register → P.IsPlace (P.rest p.now) W.width place }
        ensures value { at_memory (P.machine p.now) result
            ≡ value_at (P.machine p.now) W.width
            (location_at (operand_of n).mode (operand_of n).reg (P.address (P.rest p.now) place)) }
        ensures small { IfOk result (λ value. value < size W.width) }
        ensures trapped { IsErr result → P.MayTrap };

    /// Puts a result at its place.
    fn store<P: Processor, W: Size>(p: &mut P, n: u32, place: usize, made: Made) -> Result<(), Trap>
        requires way { IsAddressed addressing W.width (operand_of n) }
        requires place { (operand_of n).mode ≢ Mode.Register → P.IsPlace (P.rest p.old) W.width place }
        requires codes { made.cc < 16 }
        requires small { made.value < size W.width }
        ensures stored { stored_by result (P.machine p.new)
            ≡ finish_of (P.machine p.old).image
            (stored_result (P.machine p.old) W.width
            (location_at (operand_of n).mode (operand_of n).reg (P.address (P.rest p.old) place)) made) }
        ensures trapped { IsErr result → P.MayTrap }
        ensures rest { P.rest p.new ≡ P.rest p.old };

    /// Puts what was moved at its place.
    fn store_moved<P: Processor, W: Size>(
        p: &mut P,
        n: u32,
        place: usize,
        made: Made,
    ) -> Result<(), Trap>
        requires way { IsAddressed addressing W.width (operand_of n) }
        requires place { (operand_of n).mode ≢ Mode.Register → P.IsPlace (P.rest p.old) W.width place }
        requires codes { made.cc < 16 }
        requires small { made.value < size W.width }
        ensures stored { stored_by result (P.machine p.new)
            ≡ finish_of (P.machine p.old).image
            (moved_result (P.machine p.old) W.width
            (location_at (operand_of n).mode (operand_of n).reg (P.address (P.rest p.old) place)) made) }
        ensures trapped { IsErr result → P.MayTrap }
        ensures rest { P.rest p.new ≡ P.rest p.old };
}

/// The next word of the program.
#[inline(always)]
pub fn next<P: Processor>(p: &P, pc: &mut usize) -> Result<u16, Halt>
    requires room { pc.old ≤ 1000000 }
    ensures word { IsLoaded result (load_word (P.machine p.now).image (pc.old % 65536)) }
    ensures missed { IsMissed result → P.MayMiss }
    ensures trapped { IsTrapped result → P.MayTrap }
    ensures after { IfOk result (λ _. pc.new ≡ pc.old + 2) }
    ensures before { IfErr result (λ _. pc.new ≡ pc.old) }
{
    let word = p.program_word(*pc)?;
    *pc += 2;
    Ok(word)
}

/// Sets PC, once the operands are located.
#[inline(always)]
#[tactic(auto, unfolding(pdp_decode::specs::Decode::reg_of))]
pub fn set_pc<P: Processor>(p: &mut P, pc: usize)
    ensures machine { P.machine p.new ≡ at_pc (P.machine p.old) pc }
    ensures rest { P.rest p.new ≡ P.rest p.old }
{
    p.set_reg(7, low_word(pc));
}

/// The low word of an address that has passed some words.
#[inline(always)]
pub fn low_word(pc: usize) -> u16
    ensures { result ≡ pc % 65536 }
{
    (pc % 65536) as u16
}
