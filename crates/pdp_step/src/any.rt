//! Any addressing mode: the registers step as it says, before anything is read, and PC with them.
ghost use Rattle.std.specs.Prelude.{◌≡◌, ◌≢◌, ◌+◌, ◌%◌, ◌≤◌, false, IsTrue};
ghost use Rattle.pdp_decode.specs.declared.instr.Mode.{Mode};
ghost use Rattle.pdp_decode.specs.declared.instr.Reg.{Reg};
ghost use Rattle.pdp_decode.specs.declared.addressing.Addressing.{Addressing};
ghost use Rattle.pdp_decode.specs.Decode.{operand_of, reg_of};
ghost use Rattle.v6_base.specs.Access.{then_do, load_word};
ghost use Rattle.pdp_step.specs.Registers.{plus};
ghost use Rattle.pdp_step.specs.Machine.{reg_in, passed};
ghost use Rattle.pdp_step.specs.Operands.{word_at, formed, formed_at};
ghost use Rattle.pdp_step.specs.Parts.{at_pc, IsMissed, IsTrapped, IsLoaded, IsReached};

use crate::addressing_mode::{AddressingMode, set_pc};
use crate::arithmetic::Made;
use crate::halt::Halt;
use crate::in_memory::{place_at, read_at};
use crate::processor::Processor;
use crate::size::Size;
use pdp_decode::Mode;
use v6_base::Trap;

// The word at an address.
#[inline(always)]
fn word<P: Processor>(p: &P, at: u16) -> Result<u16, Halt>
    ensures word { IsLoaded result (load_word (P.machine p.now).image at) }
    ensures missed { IsMissed result → P.MayMiss }
    ensures trapped { IsTrapped result → P.MayTrap }
{
    match p.place_of_word(at) {
        Some(place) => Ok(p.load_word(place)?),
        None => Err(Halt::Missed),
    }
}

// A register plus the word at PC, which passes it.
fn index<P: Processor>(p: &mut P, n: u32) -> Result<u16, Halt>
    ensures formed { IsReached result (P.machine p.new)
        (then_do (word_at (P.machine p.old) (reg_in (P.machine p.old) Reg.Pc))
        (λ x. formed_at (passed (P.machine p.old)) (plus (reg_in (passed (P.machine p.old)) (reg_of (n % 8))) x))) }
    ensures image { (P.machine p.new).image ≡ (P.machine p.old).image }
    ensures codes { (P.machine p.new).cc ≡ (P.machine p.old).cc }
    ensures missed { IsMissed result → P.MayMiss }
    ensures trapped { IsTrapped result → P.MayTrap }
    ensures rest { P.rest p.new ≡ P.rest p.old }
{
    let pc = p.reg(7);
    match word(p, pc) {
        Ok(x) => {
            p.set_reg(7, pc.wrapping_add(2));
            Ok(p.reg(n).wrapping_add(x))
        }
        Err(halt) => Err(halt),
    }
}

// The address of an operand in memory.
#[inline(always)]
#[tactic(auto, unfolding(crate::specs::Operands::formed, crate::specs::Operands::word_at))]
fn find<P: Processor, W: Size>(p: &mut P, mode: Mode, n: u32) -> Result<u16, Halt>
    requires memory { mode ≢ Mode.Register }
    ensures formed { IsReached result (P.machine p.new) (formed (P.machine p.old) W.width mode (reg_of (n % 8))) }
    ensures image { (P.machine p.new).image ≡ (P.machine p.old).image }
    ensures codes { (P.machine p.new).cc ≡ (P.machine p.old).cc }
    ensures missed { IsMissed result → P.MayMiss }
    ensures trapped { IsTrapped result → P.MayTrap }
    ensures rest { P.rest p.new ≡ P.rest p.old }
{
    match mode {
        Mode::Register => unreachable!(),
        Mode::Deferred => Ok(p.reg(n)),
        Mode::Increment => {
            let at = p.reg(n);
            p.set_reg(n, at.wrapping_add(W::stride(n)));
            Ok(at)
        }
        Mode::IncrementDeferred => {
            let at = p.reg(n);
            p.set_reg(n, at.wrapping_add(2));
            word(p, at)
        }
        Mode::Decrement => {
            let at = p.reg(n).wrapping_sub(W::stride(n));
            p.set_reg(n, at);
            Ok(at)
        }
        Mode::DecrementDeferred => {
            let at = p.reg(n).wrapping_sub(2);
            p.set_reg(n, at);
            word(p, at)
        }
        Mode::Index => index(p, n),
        Mode::IndexDeferred => {
            let at = index(p, n)?;
            word(p, at)
        }
    }
}

// The mode of an operand's two octal digits.
#[inline(always)]
#[tactic(auto, unfolding(pdp_decode::specs::Decode::operand_of, pdp_decode::specs::Decode::mode_of))]
fn mode_in(n: u32) -> Mode
    ensures { result ≡ (operand_of n).mode }
{
    match n / 8 % 8 {
        0 => Mode::Register,
        1 => Mode::Deferred,
        2 => Mode::Increment,
        3 => Mode::IncrementDeferred,
        4 => Mode::Decrement,
        5 => Mode::DecrementDeferred,
        6 => Mode::Index,
        _ => Mode::IndexDeferred,
    }
}

// Whether an operand is in a register.
#[inline(always)]
#[tactic(auto, unfolding(pdp_decode::specs::Decode::operand_of, pdp_decode::specs::Decode::mode_of))]
fn is_in_register(n: u32) -> bool
    ensures is { IsTrue result → (operand_of n).mode ≡ Mode.Register }
    ensures not { result ≡ false → (operand_of n).mode ≢ Mode.Register }
{
    match mode_in(n) {
        Mode::Register => true,
        _ => false,
    }
}

// Puts PC into its register, forms an address, and takes PC out again.
fn reach<P: Processor, W: Size>(p: &mut P, pc: &mut usize, n: u32) -> Result<u16, Halt>
    requires memory { (operand_of n).mode ≢ Mode.Register }
    ensures formed { IsReached result (at_pc (P.machine p.new) pc.new)
        (formed (at_pc (P.machine p.old) pc.old) W.width (operand_of n).mode (operand_of n).reg) }
    ensures image { (P.machine p.new).image ≡ (P.machine p.old).image }
    ensures codes { (P.machine p.new).cc ≡ (P.machine p.old).cc }
    ensures missed { IsMissed result → P.MayMiss }
    ensures trapped { IsTrapped result → P.MayTrap }
    ensures within { pc.new ≤ pc.old + 65536 }
    ensures rest { P.rest p.new ≡ P.rest p.old }
{
    set_pc(p, *pc);
    match find::<P, W>(p, mode_in(n), n) {
        Ok(at) => {
            *pc = p.reg(7) as usize;
            Ok(at)
        }
        Err(halt) => Err(halt),
    }
}

/// Any addressing mode.
pub struct Any;

impl AddressingMode for Any {
    ghost addressing = { Addressing.Other };

    ghost steady = { false };

    ghost sure = { false };

    ghost late = { false };

    #[inline(always)]
    fn address<P: Processor, W: Size>(p: &mut P, pc: &mut usize, n: u32) -> Result<u16, Halt> {
        if is_in_register(n) {
            return Err(Halt::Missed);
        }
        reach::<P, W>(p, pc, n)
    }

    #[inline(always)]
    fn value<P: Processor, W: Size>(p: &mut P, pc: &mut usize, n: u32) -> Result<u16, Halt> {
        if is_in_register(n) {
            set_pc(p, *pc);
            return Ok(W::held(p, n));
        }
        match reach::<P, W>(p, pc, n) {
            Ok(at) => read_at::<P, W>(p, at),
            Err(halt) => Err(halt),
        }
    }

    #[inline(always)]
    fn locate<P: Processor, W: Size>(p: &mut P, pc: &mut usize, n: u32) -> Result<usize, Halt> {
        if is_in_register(n) {
            return Ok(0);
        }
        match reach::<P, W>(p, pc, n) {
            Ok(at) => place_at::<P, W>(p, at),
            Err(halt) => Err(halt),
        }
    }

    #[inline(always)]
    fn get<P: Processor, W: Size>(p: &P, n: u32, place: usize) -> Result<u16, Trap> {
        if is_in_register(n) {
            return Ok(W::held(p, n));
        }
        W::load(p, place)
    }

    #[inline(always)]
    fn store<P: Processor, W: Size>(
        p: &mut P,
        n: u32,
        place: usize,
        made: Made,
    ) -> Result<(), Trap> {
        if is_in_register(n) {
            W::hold(p, n, made);
            return Ok(());
        }
        W::store(p, place, made)
    }

    #[inline(always)]
    fn store_moved<P: Processor, W: Size>(
        p: &mut P,
        n: u32,
        place: usize,
        made: Made,
    ) -> Result<(), Trap> {
        if is_in_register(n) {
            W::hold_moved(p, n, made);
            return Ok(());
        }
        W::store(p, place, made)
    }
}
