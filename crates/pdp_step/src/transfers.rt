//! The rows of the instructions that move PC.
ghost use Rattle.std.specs.Prelude.{◌≡◌, ◌≢◌, ◌&&◌, ◌/◌, ◌%◌, ◌<◌, ◌≤◌, IsTrue, false, if◌then◌else◌, IsErr};
ghost use Rattle.pdp_decode.specs.declared.instr.Mode.{Mode};
ghost use Rattle.pdp_decode.specs.declared.instr.Reg.{Reg};
ghost use Rattle.pdp_decode.specs.declared.instr.Width.{Width};
ghost use Rattle.pdp_decode.specs.Decode.{reg_of, operand_of, flags_of};
ghost use Rattle.pdp_decode.specs.Handlers.{IsAddressed};
ghost use Rattle.pdp_step.specs.Registers.{plus, minus, codes_in};
ghost use Rattle.pdp_decode.specs.Numbers.{flag_bits};
ghost use Rattle.pdp_step.specs.Machine.{reg_in};
ghost use Rattle.pdp_step.specs.Arithmetic.{is_taken};
ghost use Rattle.pdp_step.specs.Rows.{distance_of, branched, counted, jumped, jumped_to_subroutine, popped, returned, marked, resumed, without_write, named_codes};
ghost use Rattle.pdp_step.specs.Instruction.{Go, go, on_registers, on_codes};
ghost use Rattle.pdp_step.specs.After.{popped_by, stored_by, finish_of, finished};
ghost use Rattle.pdp_step.specs.Parts.{at_pc, link_effect, IsMissed, IsTrapped, Ends};

use crate::addressing_mode::{AddressingMode, low_word, set_pc};
use crate::arithmetic::taken;
use crate::halt::{Halt, halted};
use crate::processor::Processor;
use crate::regs::{codes, pack};
use crate::size::Words;
use pdp_decode::{Condition, Flags};
use v6_base::Trap;

// Twice the low byte of a branch, taken as signed.
#[inline(always)]
fn distance(word: u32) -> u16
    ensures { result ≡ distance_of (word % 256) }
{
    let low = ((word % 256 + 128) % 256) as u16;
    low.wrapping_sub(128).wrapping_mul(2)
}

// Where a branch goes.
#[inline(always)]
fn target(pc: usize, word: u32, goes: bool) -> u16
    ensures goes { IsTrue goes → result ≡ plus (pc % 65536) (distance_of (word % 256)) }
    ensures stays { goes ≡ false → result ≡ pc % 65536 }
{
    let here = low_word(pc);
    if goes {
        here.wrapping_add(distance(word))
    } else {
        here
    }
}

/// The branches.
#[inline(always)]
pub fn branch_if<P: Processor>(
    p: &mut P,
    pc: usize,
    word: u32,
    condition: Condition,
) -> Result<(), Halt>
    ensures row { Ends result (P.machine p.new)
        (finished (P.machine p.old).image
        (on_registers (at_pc (P.machine p.old) pc)
        (branched (at_pc (P.machine p.old) pc).r (is_taken condition (codes_in (P.machine p.old).cc)) (word % 256)))) }
    ensures sure { IsMissed result → ⊥ }
    ensures trapped { IsTrapped result → P.MayTrap }
    ensures rest { P.rest p.new ≡ P.rest p.old }
{
    let goes = taken(condition, codes(p.cc()));
    let to = target(pc, word, goes);
    p.set_reg(7, to);
    Ok(())
}

// Counts a register down, and goes back where it isn't 0.
#[inline(always)]
#[tactic(auto, unfolding(pdp_decode::specs::Decode::reg_of, crate::specs::Rows::counted))]
fn count_down<P: Processor>(p: &mut P, pc: usize, word: u32)
    ensures machine { P.machine p.new
        ≡ record (P.machine p.old) { r = counted (at_pc (P.machine p.old) pc).r (reg_of (word / 64 % 8)) (word % 64) } }
    ensures rest { P.rest p.new ≡ P.rest p.old }
{
    set_pc(p, pc);
    let left = p.reg(word / 64).wrapping_sub(1);
    p.set_reg(word / 64, left);
    if p.reg(word / 64) != 0 {
        let to = p.reg(7).wrapping_sub((2 * (word % 64)) as u16);
        p.set_reg(7, to);
    }
}

/// SOB.
#[inline(always)]
pub fn count<P: Processor>(p: &mut P, pc: usize, word: u32) -> Result<(), Halt>
    ensures row { Ends result (P.machine p.new)
        (finished (P.machine p.old).image
        (on_registers (at_pc (P.machine p.old) pc)
        (counted (at_pc (P.machine p.old) pc).r (reg_of (word / 64 % 8)) (word % 64)))) }
    ensures sure { IsMissed result → ⊥ }
    ensures trapped { IsTrapped result → P.MayTrap }
    ensures rest { P.rest p.new ≡ P.rest p.old }
{
    count_down(p, pc, word);
    Ok(())
}

/// JMP.
#[inline(always)]
pub fn jump<P: Processor, D: AddressingMode>(p: &mut P, from: usize, word: u32) -> Result<(), Halt>
    requires dest { IsAddressed D.addressing Width.Word (operand_of word) }
    requires memory { (operand_of word).mode ≢ Mode.Register }
    requires room { from ≤ 65538 }
    ensures row { Ends result (P.machine p.new)
        (finished (P.machine p.old).image (go (jumped (at_pc (P.machine p.old) from) (operand_of word)))) }
    ensures kept { IsTrue D.late → IsMissed result → P.machine p.new ≡ P.machine p.old }
    ensures image { IsMissed result → (P.machine p.new).image ≡ (P.machine p.old).image }
    ensures missed { IsMissed result → P.MayMiss }
    ensures trapped { IsTrapped result → P.MayTrap }
    ensures rest { P.rest p.new ≡ P.rest p.old }
{
    let mut pc = from;
    match D::address::<P, Words>(p, &mut pc, word) {
        Ok(at) => {
            p.set_reg(7, at);
            Ok(())
        }
        Err(halt) => Err(halt),
    }
}

// Pushes the link and goes to an address; the place is that of the word below R6.
#[inline(always)]
fn push_link<P: Processor>(p: &mut P, pc: usize, n: u32, place: usize, at: u16) -> Result<(), Trap>
    requires place { P.IsPlace (P.rest p.old) Width.Word place }
    requires top { P.address (P.rest p.old) place ≡ minus (reg_in (P.machine p.old) Reg.Sp) 2 }
    ensures row { stored_by result (P.machine p.new)
        ≡ finish_of (P.machine p.old).image (link_effect (at_pc (P.machine p.old) pc) (reg_of (n % 8)) at) }
    ensures trapped { IsErr result → P.MayTrap }
    ensures rest { P.rest p.new ≡ P.rest p.old }
{
    let sp = p.reg(6).wrapping_sub(2);
    set_pc(p, pc);
    let link = p.reg(n);
    p.set_reg(6, sp);
    match p.store_word(place, link) {
        Ok(()) => {
            p.set_reg(n, low_word(pc));
            p.set_reg(7, at);
            Ok(())
        }
        Err(trap) => Err(trap),
    }
}

/// JSR.
#[inline(always)]
pub fn jump_to_subroutine<P: Processor, D: AddressingMode>(
    p: &mut P,
    from: usize,
    word: u32,
) -> Result<(), Halt>
    requires dest { IsAddressed D.addressing Width.Word (operand_of word) }
    requires memory { (operand_of word).mode ≢ Mode.Register }
    requires room { from ≤ 65538 }
    ensures row { Ends result (P.machine p.new)
        (finished (P.machine p.old).image
        (go (jumped_to_subroutine (at_pc (P.machine p.old) from) (reg_of (word / 64 % 8)) (operand_of word)))) }
    ensures kept { IsTrue (D.late && D.steady) → IsMissed result → P.machine p.new ≡ P.machine p.old }
    ensures image { IsMissed result → (P.machine p.new).image ≡ (P.machine p.old).image }
    ensures missed { IsMissed result → P.MayMiss }
    ensures trapped { IsTrapped result → P.MayTrap }
    ensures rest { P.rest p.new ≡ P.rest p.old }
{
    let mut pc = from;
    match D::address::<P, Words>(p, &mut pc, word) {
        Ok(at) => {
            let sp = p.reg(6).wrapping_sub(2);
            match p.place_of_word(sp) {
                Some(place) => halted(push_link(p, pc, word / 64, place, at)),
                None => Err(Halt::Missed),
            }
        }
        Err(halt) => Err(halt),
    }
}

// Pops the word that R6 names, at its place.
#[inline(always)]
#[tactic(auto, unfolding(pdp_decode::specs::Decode::reg_of, crate::specs::Rows::popped, crate::specs::Operands::word_at))]
fn pop<P: Processor>(p: &mut P, place: usize) -> Result<u16, Trap>
    requires place { P.IsPlace (P.rest p.old) Width.Word place }
    requires top { P.address (P.rest p.old) place ≡ reg_in (P.machine p.old) Reg.Sp }
    ensures popped { popped_by result (P.machine p.new) ≡ popped (P.machine p.old) }
    ensures image { (P.machine p.new).image ≡ (P.machine p.old).image }
    ensures sp { reg_in (P.machine p.new) Reg.Sp ≡ plus (reg_in (P.machine p.old) Reg.Sp) 2 }
    ensures trapped { IsErr result → P.MayTrap }
    ensures rest { P.rest p.new ≡ P.rest p.old }
{
    let at = p.reg(6);
    p.set_reg(6, at.wrapping_add(2));
    p.load_word(place)
}

/// RTS.
#[inline(always)]
pub fn return_by<P: Processor>(p: &mut P, pc: usize, word: u32) -> Result<(), Halt>
    ensures row { Ends result (P.machine p.new)
        (finished (P.machine p.old).image (go (returned (at_pc (P.machine p.old) pc) (reg_of (word % 8))))) }
    ensures kept { IsMissed result → P.machine p.new ≡ P.machine p.old }
    ensures image { IsMissed result → (P.machine p.new).image ≡ (P.machine p.old).image }
    ensures missed { IsMissed result → P.MayMiss }
    ensures trapped { IsTrapped result → P.MayTrap }
    ensures rest { P.rest p.new ≡ P.rest p.old }
{
    let sp = p.reg(6);
    match p.place_of_word(sp) {
        Some(place) => {
            set_pc(p, pc);
            let to = p.reg(word);
            p.set_reg(7, to);
            match pop(p, place) {
                Ok(top) => {
                    p.set_reg(word, top);
                    Ok(())
                }
                Err(trap) => Err(Halt::Trapped(trap)),
            }
        }
        None => Err(Halt::Missed),
    }
}

/// MARK.
#[inline(always)]
pub fn mark<P: Processor>(p: &mut P, pc: usize, word: u32) -> Result<(), Halt>
    ensures row { Ends result (P.machine p.new)
        (finished (P.machine p.old).image (go (marked (at_pc (P.machine p.old) pc) (word % 64)))) }
    ensures image { IsMissed result → (P.machine p.new).image ≡ (P.machine p.old).image }
    ensures missed { IsMissed result → P.MayMiss }
    ensures trapped { IsTrapped result → P.MayTrap }
    ensures rest { P.rest p.new ≡ P.rest p.old }
{
    let sp = low_word(pc).wrapping_add((2 * (word % 64)) as u16);
    match p.place_of_word(sp) {
        Some(place) => {
            set_pc(p, pc);
            p.set_reg(6, sp);
            let to = p.reg(5);
            p.set_reg(7, to);
            match pop(p, place) {
                Ok(top) => {
                    p.set_reg(5, top);
                    Ok(())
                }
                Err(trap) => Err(Halt::Trapped(trap)),
            }
        }
        None => Err(Halt::Missed),
    }
}

// Pops PC and the codes, at their places.
#[inline(always)]
fn pop_status<P: Processor>(p: &mut P, first: usize, second: usize) -> Result<(), Halt>
    requires first { P.IsPlace (P.rest p.old) Width.Word first }
    requires top { P.address (P.rest p.old) first ≡ reg_in (P.machine p.old) Reg.Sp }
    requires second { P.IsPlace (P.rest p.old) Width.Word second }
    requires next { P.address (P.rest p.old) second ≡ plus (reg_in (P.machine p.old) Reg.Sp) 2 }
    ensures row { Ends result (P.machine p.new) (finished (P.machine p.old).image (go (resumed (P.machine p.old)))) }
    ensures sure { IsMissed result → ⊥ }
    ensures trapped { IsTrapped result → P.MayTrap }
    ensures rest { P.rest p.new ≡ P.rest p.old }
{
    match pop(p, first) {
        Ok(to) => match pop(p, second) {
            Ok(status) => {
                p.set_reg(7, to);
                p.set_cc((status % 16) as u8);
                Ok(())
            }
            Err(trap) => Err(Halt::Trapped(trap)),
        },
        Err(trap) => Err(Halt::Trapped(trap)),
    }
}

/// RTI and RTT.
#[inline(always)]
pub fn resume<P: Processor>(p: &mut P, pc: usize) -> Result<(), Halt>
    ensures row { Ends result (P.machine p.new) (finished (P.machine p.old).image (go (resumed (at_pc (P.machine p.old) pc)))) }
    ensures kept { IsMissed result → P.machine p.new ≡ P.machine p.old }
    ensures image { IsMissed result → (P.machine p.new).image ≡ (P.machine p.old).image }
    ensures missed { IsMissed result → P.MayMiss }
    ensures trapped { IsTrapped result → P.MayTrap }
    ensures rest { P.rest p.new ≡ P.rest p.old }
{
    let sp = p.reg(6);
    match p.place_of_word(sp) {
        Some(first) => match p.place_of_word(sp.wrapping_add(2)) {
            Some(second) => {
                set_pc(p, pc);
                pop_status(p, first, second)
            }
            None => Err(Halt::Missed),
        },
        None => Err(Halt::Missed),
    }
}

// The codes with the named ones set or cleared.
#[inline(always)]
fn named(cc: u8, set: bool, names: Flags) -> u8
    ensures bits { result ≡ flag_bits (named_codes set names (codes_in cc)) }
    ensures small { result < 16 }
{
    let k = codes(cc);
    pack(
        chosen(names.n, set, k.n),
        chosen(names.z, set, k.z),
        chosen(names.v, set, k.v),
        chosen(names.c, set, k.c),
    )
}

/// The codes that a word names.
#[inline(always)]
#[tactic(auto, unfolding(pdp_decode::specs::Decode::flags_of, crate::specs::Registers::codes_in))]
pub fn names_in(word: u32) -> Flags
    ensures { result ≡ flags_of word }
{
    codes((word % 16) as u8)
}

/// The instructions that set and clear codes.
#[inline(always)]
pub fn set_codes<P: Processor>(p: &mut P, pc: usize, set: bool, names: Flags) -> Result<(), Halt>
    ensures row { Ends result (P.machine p.new)
        (finished (P.machine p.old).image
        (on_codes (at_pc (P.machine p.old) pc) (flag_bits (named_codes set names (codes_in (P.machine p.old).cc))))) }
    ensures sure { IsMissed result → ⊥ }
    ensures trapped { IsTrapped result → P.MayTrap }
    ensures rest { P.rest p.new ≡ P.rest p.old }
{
    let cc = named(p.cc(), set, names);
    set_pc(p, pc);
    p.set_cc(cc);
    Ok(())
}

/// WAIT and RESET.
#[inline(always)]
pub fn wait<P: Processor>(p: &mut P, pc: usize) -> Result<(), Halt>
    ensures row { Ends result (P.machine p.new)
        (finished (P.machine p.old).image (Go (without_write (at_pc (P.machine p.old) pc)))) }
    ensures sure { IsMissed result → ⊥ }
    ensures trapped { IsTrapped result → P.MayTrap }
    ensures rest { P.rest p.new ≡ P.rest p.old }
{
    set_pc(p, pc);
    Ok(())
}

#[inline(always)]
fn chosen(named: bool, set: bool, old: bool) -> bool
    ensures { result ≡ (if named then set else old) }
{
    if named { set } else { old }
}
