//! The table of instructions over any addressing modes.
ghost use Rattle.std.specs.Prelude.{◌≡◌, ◌<◌, ◌≤◌, ◌/◌, false};
ghost use Rattle.pdp_decode.specs.Decode.{decode_of, operand_of};
ghost use Rattle.pdp_decode.specs.declared.instr.Width.{Width};
ghost use Rattle.pdp_step.specs.Machine.{carry_in};
ghost use Rattle.pdp_step.specs.Arithmetic.{result_of};
ghost use Rattle.pdp_step.specs.Rows.{moved, compared, joined, modified, replaced, tested};
ghost use Rattle.pdp_step.specs.Instruction.{go, row_of, plan_of};
ghost use Rattle.pdp_step.specs.After.{finished, Finishes, RefusesNumbered, RefusesMissed};
ghost use Rattle.pdp_step.specs.Parts.{at_pc, IsMissed, Ends};

use crate::alteration::{
    AddingCarry, Alteration, Complementing, Decreasing, Increasing, Negating, RotatingLeft,
    RotatingRight, ShiftingLeft, ShiftingRight, SubtractingCarry,
};
use crate::any::Any;
use crate::halt::{Halt, Refusal, refuse};
use crate::operand_rows::{
    clear, compare, exchange, exclusive_or, extend_sign, join, modify, move_to, test,
};
use crate::operation::{Addition, BitClear, BitSet, BitTest, Comparison, Operation, Subtraction};
use crate::outcome::Demand;
use crate::pair_rows::{divide, multiply, shift_pair, shift_reg};
use crate::processor::Processor;
use crate::size::{Bytes, Words};
use crate::transfers::{
    branch_if, count, jump, jump_to_subroutine, mark, resume, return_by, set_codes, wait,
};
use pdp_decode::Width::{Byte, Word};
use pdp_decode::{Instr, SoftTrap, Width, decode};

/// An instruction: its word is fetched at PC, and its row is done. Where it isn't done, the registers are as they were by then.
#[inline(always)]
pub fn attempt<P: Processor>(p: &mut P) -> Result<(), Refusal>
    ensures attempt { Finishes result (P.machine p.new) (finished (P.machine p.old).image (plan_of (P.machine p.old))) }
    ensures number { RefusesNumbered result }
    ensures missed { RefusesMissed result → P.MayMiss }
    ensures rest { P.rest p.new ≡ P.rest p.old }
{
    let pc = p.reg(7) as usize;
    match p.program_word(pc) {
        Ok(word) => perform_instruction(p, pc + 2, word as u32),
        Err(halt) => Err(Refusal::Halted(halt)),
    }
}

// MOV, by size.
#[inline(always)]
fn any_move<P: Processor>(p: &mut P, pc: usize, word: u32, w: Width) -> Result<(), Halt>
    requires room { pc ≤ 65538 }
    ensures row { Ends result (P.machine p.new)
        (finished (P.machine p.old).image
        (go (moved (at_pc (P.machine p.old) pc) w (operand_of (word / 64)) (operand_of word)))) }
    ensures missed { IsMissed result → P.MayMiss }
    ensures rest { P.rest p.new ≡ P.rest p.old }
{
    match w {
        Word => move_to::<P, Words, Any, Any>(p, pc, word),
        Byte => move_to::<P, Bytes, Any, Any>(p, pc, word),
    }
}

// CMP and BIT, by size.
#[inline(always)]
fn any_compare<P: Processor, O: Operation>(
    p: &mut P,
    pc: usize,
    word: u32,
    w: Width,
) -> Result<(), Halt>
    requires room { pc ≤ 65538 }
    ensures row { Ends result (P.machine p.new)
        (finished (P.machine p.old).image
        (go (compared (at_pc (P.machine p.old) pc) w (operand_of (word / 64)) (operand_of word)
        (O.made w (carry_in (P.machine p.old)))))) }
    ensures missed { IsMissed result → P.MayMiss }
    ensures rest { P.rest p.new ≡ P.rest p.old }
{
    match w {
        Word => compare::<P, Words, Any, Any, O>(p, pc, word),
        Byte => compare::<P, Bytes, Any, Any, O>(p, pc, word),
    }
}

// BIC and BIS, by size.
#[inline(always)]
fn any_join<P: Processor, O: Operation>(
    p: &mut P,
    pc: usize,
    word: u32,
    w: Width,
) -> Result<(), Halt>
    requires room { pc ≤ 65538 }
    ensures row { Ends result (P.machine p.new)
        (finished (P.machine p.old).image
        (go (joined (at_pc (P.machine p.old) pc) w (operand_of (word / 64)) (operand_of word)
        (O.made w (carry_in (P.machine p.old)))))) }
    ensures missed { IsMissed result → P.MayMiss }
    ensures rest { P.rest p.new ≡ P.rest p.old }
{
    match w {
        Word => join::<P, Words, Any, Any, O>(p, pc, word),
        Byte => join::<P, Bytes, Any, Any, O>(p, pc, word),
    }
}

// What changes its one operand, by size.
#[inline(always)]
fn any_modify<P: Processor, A: Alteration>(
    p: &mut P,
    pc: usize,
    word: u32,
    w: Width,
    alteration: &A,
) -> Result<(), Halt>
    requires room { pc ≤ 65538 }
    requires size { (x : Width) → A.IsFor alteration.now x }
    ensures row { Ends result (P.machine p.new)
        (finished (P.machine p.old).image
        (go (modified (at_pc (P.machine p.old) pc) w (operand_of word)
        (A.made alteration.now w (carry_in (P.machine p.old)))))) }
    ensures missed { IsMissed result → P.MayMiss }
    ensures rest { P.rest p.new ≡ P.rest p.old }
{
    match w {
        Word => modify::<P, Words, Any, A>(p, pc, word, alteration),
        Byte => modify::<P, Bytes, Any, A>(p, pc, word, alteration),
    }
}

// CLR, by size.
#[inline(always)]
fn any_clear<P: Processor>(p: &mut P, pc: usize, word: u32, w: Width) -> Result<(), Halt>
    requires room { pc ≤ 65538 }
    ensures row { Ends result (P.machine p.new)
        (finished (P.machine p.old).image
        (go (replaced (at_pc (P.machine p.old) pc) w (operand_of word) (result_of w 0 false false)))) }
    ensures missed { IsMissed result → P.MayMiss }
    ensures rest { P.rest p.new ≡ P.rest p.old }
{
    match w {
        Word => clear::<P, Words, Any>(p, pc, word),
        Byte => clear::<P, Bytes, Any>(p, pc, word),
    }
}

// TST, by size.
#[inline(always)]
fn any_test<P: Processor>(p: &mut P, pc: usize, word: u32, w: Width) -> Result<(), Halt>
    requires room { pc ≤ 65538 }
    ensures row { Ends result (P.machine p.new)
        (finished (P.machine p.old).image
        (go (tested (at_pc (P.machine p.old) pc) w (operand_of word) (λ x. result_of w x false false)))) }
    ensures missed { IsMissed result → P.MayMiss }
    ensures rest { P.rest p.new ≡ P.rest p.old }
{
    match w {
        Word => test::<P, Words, Any>(p, pc, word),
        Byte => test::<P, Bytes, Any>(p, pc, word),
    }
}

// The row of a word, by its instruction, with PC after it.
#[inline(always)]
#[tactic(auto, unfolding(crate::specs::Instruction::row_of, crate::specs::After::finish_of, crate::specs::Instruction::stored))]
fn perform_instruction<P: Processor>(p: &mut P, pc: usize, word: u32) -> Result<(), Refusal>
    requires word { word < 65536 }
    requires room { pc ≤ 65538 }
    ensures row { Finishes result (P.machine p.new)
        (finished (P.machine p.old).image (row_of (at_pc (P.machine p.old) pc) word (decode_of word))) }
    ensures number { RefusesNumbered result }
    ensures missed { RefusesMissed result → P.MayMiss }
    ensures rest { P.rest p.new ≡ P.rest p.old }
{
    match decode(word as u16) {
        Instr::Mov(w, _s, _d) => refuse(any_move(p, pc, word, w)),
        Instr::Cmp(w, _s, _d) => refuse(any_compare::<P, Comparison>(p, pc, word, w)),
        Instr::Bit(w, _s, _d) => refuse(any_compare::<P, BitTest>(p, pc, word, w)),
        Instr::Bic(w, _s, _d) => refuse(any_join::<P, BitClear>(p, pc, word, w)),
        Instr::Bis(w, _s, _d) => refuse(any_join::<P, BitSet>(p, pc, word, w)),
        Instr::Add(_s, _d) => refuse(join::<P, Words, Any, Any, Addition>(p, pc, word)),
        Instr::Sub(_s, _d) => refuse(join::<P, Words, Any, Any, Subtraction>(p, pc, word)),
        Instr::Clr(w, _d) => refuse(any_clear(p, pc, word, w)),
        Instr::Com(w, _d) => refuse(any_modify(p, pc, word, w, &Complementing)),
        Instr::Inc(w, _d) => refuse(any_modify(p, pc, word, w, &Increasing)),
        Instr::Dec(w, _d) => refuse(any_modify(p, pc, word, w, &Decreasing)),
        Instr::Neg(w, _d) => refuse(any_modify(p, pc, word, w, &Negating)),
        Instr::Adc(w, _d) => refuse(any_modify(p, pc, word, w, &AddingCarry)),
        Instr::Sbc(w, _d) => refuse(any_modify(p, pc, word, w, &SubtractingCarry)),
        Instr::Tst(w, _d) => refuse(any_test(p, pc, word, w)),
        Instr::Ror(w, _d) => refuse(any_modify(p, pc, word, w, &RotatingRight)),
        Instr::Rol(w, _d) => refuse(any_modify(p, pc, word, w, &RotatingLeft)),
        Instr::Asr(w, _d) => refuse(any_modify(p, pc, word, w, &ShiftingRight)),
        Instr::Asl(w, _d) => refuse(any_modify(p, pc, word, w, &ShiftingLeft)),
        Instr::Swab(_d) => refuse(exchange::<P, Any>(p, pc, word)),
        Instr::Sxt(_d) => refuse(extend_sign::<P, Any>(p, pc, word)),
        Instr::Mul(_n, _s) => refuse(multiply::<P, Any>(p, pc, word)),
        Instr::Div(_n, _s) => refuse(divide::<P, Any>(p, pc, word)),
        Instr::Ash(_n, _s) => refuse(shift_reg::<P, Any>(p, pc, word)),
        Instr::Ashc(_n, _s) => refuse(shift_pair::<P, Any>(p, pc, word)),
        Instr::Xor(_n, _s) => refuse(exclusive_or::<P, Any, Any>(p, pc, word)),
        Instr::Sob(_n, _words) => refuse(count(p, pc, word)),
        Instr::Branch(condition, _offset) => refuse(branch_if(p, pc, word, condition)),
        Instr::Jmp(_d) => refuse(jump::<P, Any>(p, pc, word)),
        Instr::Jsr(_n, _s) => refuse(jump_to_subroutine::<P, Any>(p, pc, word)),
        Instr::Rts(_n) => refuse(return_by(p, pc, word)),
        Instr::Mark(_words) => refuse(mark(p, pc, word)),
        Instr::Rti => refuse(resume(p, pc)),
        Instr::Codes(set, names) => refuse(set_codes(p, pc, set, names)),
        Instr::Wait => refuse(wait(p, pc)),
        Instr::SoftTrap(SoftTrap::Bpt) => Err(Refusal::Demanded(Demand::Breakpoint)),
        Instr::SoftTrap(SoftTrap::Iot) => Err(Refusal::Demanded(Demand::InputOutput)),
        Instr::Emt => Err(Refusal::Demanded(Demand::Emulator)),
        Instr::Sys(n) => Err(Refusal::Demanded(Demand::System(n))),
        Instr::Illegal => Err(Refusal::Demanded(Demand::Unknown(word as u16))),
    }
}
