//! The rows of the words that have a handler: each with one addressing mode for each operand.
ghost use Rattle.std.specs.Prelude.{◌≡◌, ◌<◌, ◌≤◌};
ghost use Rattle.pdp_decode.specs.Decode.{decode_of};
ghost use Rattle.pdp_decode.specs.Handlers.{Handles};
ghost use Rattle.pdp_step.specs.Instruction.{row_of};
ghost use Rattle.pdp_step.specs.After.{finished};
ghost use Rattle.pdp_step.specs.Parts.{at_pc, IsMissed, IsTrapped, Ends};
ghost use Rattle.pdp_step.specs.Families.{Frequent, OfBytes, Apart, Between, Extended, Stepping, family_of};

use crate::alteration::{
    AddingCarry, Complementing, Decreasing, Increasing, Negating, RotatingLeft, RotatingRight,
    ShiftingLeft, ShiftingRight, SubtractingCarry,
};
use crate::halt::Halt;
use crate::in_memory::{
    Absolute, Autodecrement, Autoincrement, Deferred, Immediate, Indexed, Relative,
};
use crate::in_register::Register;
use crate::operand_rows::{
    clear, compare, exchange, exclusive_or, extend_sign, join, modify, move_to, test,
};
use crate::operation::{Addition, BitClear, BitSet, BitTest, Comparison, Subtraction};
use crate::pair_rows::{divide, multiply, shift_pair, shift_reg};
use crate::processor::Processor;
use crate::size::{Bytes, Words};
use crate::transfers::{
    branch_if, count, jump, jump_to_subroutine, names_in, resume, return_by, set_codes,
};
use pdp_decode::{Condition, Handler};

/// The row of a word by its handler, for the most frequent ones. Where it misses, nothing has changed.
#[inline(always)]
pub fn perform<P: Processor>(p: &mut P, handler: Handler, pc: usize, word: u32) -> Result<(), Halt>
    requires handles { Handles handler word }
    requires word { word < 65536 }
    requires room { pc ≤ 65538 }
    ensures row { Ends result (P.machine p.new)
        (finished (P.machine p.old).image (row_of (at_pc (P.machine p.old) pc) word (decode_of word))) }
    ensures kept { IsMissed result → P.machine p.new ≡ P.machine p.old }
    ensures missed { family_of handler ≡ Frequent → IsMissed result → P.MayMiss }
    ensures trapped { IsTrapped result → P.MayTrap }
    ensures rest { P.rest p.new ≡ P.rest p.old }
{
    match handler {
        Handler::MovRR => move_to::<P, Words, Register, Register>(p, pc, word),
        Handler::MovIR => move_to::<P, Words, Immediate, Register>(p, pc, word),
        Handler::MovAR => move_to::<P, Words, Absolute, Register>(p, pc, word),
        Handler::MovXR => move_to::<P, Words, Indexed, Register>(p, pc, word),
        Handler::MovDR => move_to::<P, Words, Deferred, Register>(p, pc, word),
        Handler::MovPR => move_to::<P, Words, Autoincrement, Register>(p, pc, word),
        Handler::MovLR => move_to::<P, Words, Relative, Register>(p, pc, word),
        Handler::MovRA => move_to::<P, Words, Register, Absolute>(p, pc, word),
        Handler::MovRX => move_to::<P, Words, Register, Indexed>(p, pc, word),
        Handler::MovRD => move_to::<P, Words, Register, Deferred>(p, pc, word),
        Handler::MovRP => move_to::<P, Words, Register, Autoincrement>(p, pc, word),
        Handler::MovRM => move_to::<P, Words, Register, Autodecrement>(p, pc, word),
        Handler::MovRL => move_to::<P, Words, Register, Relative>(p, pc, word),
        Handler::CmpRR => compare::<P, Words, Register, Register, Comparison>(p, pc, word),
        Handler::CmpIR => compare::<P, Words, Immediate, Register, Comparison>(p, pc, word),
        Handler::CmpAR => compare::<P, Words, Absolute, Register, Comparison>(p, pc, word),
        Handler::CmpXR => compare::<P, Words, Indexed, Register, Comparison>(p, pc, word),
        Handler::AddRR => join::<P, Words, Register, Register, Addition>(p, pc, word),
        Handler::AddIR => join::<P, Words, Immediate, Register, Addition>(p, pc, word),
        Handler::AddAR => join::<P, Words, Absolute, Register, Addition>(p, pc, word),
        Handler::AddXR => join::<P, Words, Indexed, Register, Addition>(p, pc, word),
        Handler::AddRA => join::<P, Words, Register, Absolute, Addition>(p, pc, word),
        Handler::AddRX => join::<P, Words, Register, Indexed, Addition>(p, pc, word),
        Handler::SubRR => join::<P, Words, Register, Register, Subtraction>(p, pc, word),
        Handler::SubIR => join::<P, Words, Immediate, Register, Subtraction>(p, pc, word),
        Handler::BitRR => compare::<P, Words, Register, Register, BitTest>(p, pc, word),
        Handler::BitIR => compare::<P, Words, Immediate, Register, BitTest>(p, pc, word),
        Handler::BicRR => join::<P, Words, Register, Register, BitClear>(p, pc, word),
        Handler::BicIR => join::<P, Words, Immediate, Register, BitClear>(p, pc, word),
        Handler::BisRR => join::<P, Words, Register, Register, BitSet>(p, pc, word),
        Handler::BisIR => join::<P, Words, Immediate, Register, BitSet>(p, pc, word),
        Handler::MovbRR => move_to::<P, Bytes, Register, Register>(p, pc, word),
        Handler::MovbXR => move_to::<P, Bytes, Indexed, Register>(p, pc, word),
        Handler::MovbDR => move_to::<P, Bytes, Deferred, Register>(p, pc, word),
        Handler::MovbPR => move_to::<P, Bytes, Autoincrement, Register>(p, pc, word),
        Handler::MovbRX => move_to::<P, Bytes, Register, Indexed>(p, pc, word),
        Handler::MovbRD => move_to::<P, Bytes, Register, Deferred>(p, pc, word),
        Handler::MovbRP => move_to::<P, Bytes, Register, Autoincrement>(p, pc, word),
        Handler::CmpbIR => compare::<P, Bytes, Immediate, Register, Comparison>(p, pc, word),
        Handler::ClrR => clear::<P, Words, Register>(p, pc, word),
        Handler::ClrA => clear::<P, Words, Absolute>(p, pc, word),
        Handler::ClrX => clear::<P, Words, Indexed>(p, pc, word),
        Handler::ClrM => clear::<P, Words, Autodecrement>(p, pc, word),
        Handler::IncR => modify::<P, Words, Register, Increasing>(p, pc, word, &Increasing),
        Handler::IncA => modify::<P, Words, Absolute, Increasing>(p, pc, word, &Increasing),
        Handler::IncX => modify::<P, Words, Indexed, Increasing>(p, pc, word, &Increasing),
        Handler::DecR => modify::<P, Words, Register, Decreasing>(p, pc, word, &Decreasing),
        Handler::DecA => modify::<P, Words, Absolute, Decreasing>(p, pc, word, &Decreasing),
        Handler::DecX => modify::<P, Words, Indexed, Decreasing>(p, pc, word, &Decreasing),
        Handler::TstR => test::<P, Words, Register>(p, pc, word),
        Handler::TstA => test::<P, Words, Absolute>(p, pc, word),
        Handler::TstX => test::<P, Words, Indexed>(p, pc, word),
        Handler::TstP => test::<P, Words, Autoincrement>(p, pc, word),
        Handler::TstL => test::<P, Words, Relative>(p, pc, word),
        Handler::ComR => modify::<P, Words, Register, Complementing>(p, pc, word, &Complementing),
        Handler::NegR => modify::<P, Words, Register, Negating>(p, pc, word, &Negating),
        Handler::AdcR => modify::<P, Words, Register, AddingCarry>(p, pc, word, &AddingCarry),
        Handler::SbcR => modify::<P, Words, Register, SubtractingCarry>(
            p,
            pc,
            word,
            &SubtractingCarry,
        ),
        Handler::RorR => modify::<P, Words, Register, RotatingRight>(p, pc, word, &RotatingRight),
        Handler::RolR => modify::<P, Words, Register, RotatingLeft>(p, pc, word, &RotatingLeft),
        Handler::AsrR => modify::<P, Words, Register, ShiftingRight>(p, pc, word, &ShiftingRight),
        Handler::AslR => modify::<P, Words, Register, ShiftingLeft>(p, pc, word, &ShiftingLeft),
        Handler::Always => branch_if(p, pc, word, Condition::Always),
        Handler::NotEqual => branch_if(p, pc, word, Condition::NotEqual),
        Handler::Equal => branch_if(p, pc, word, Condition::Equal),
        Handler::GreaterOrEqual => branch_if(p, pc, word, Condition::GreaterOrEqual),
        Handler::Less => branch_if(p, pc, word, Condition::Less),
        Handler::Greater => branch_if(p, pc, word, Condition::Greater),
        Handler::LessOrEqual => branch_if(p, pc, word, Condition::LessOrEqual),
        Handler::Plus => branch_if(p, pc, word, Condition::Plus),
        Handler::Minus => branch_if(p, pc, word, Condition::Minus),
        Handler::Higher => branch_if(p, pc, word, Condition::Higher),
        Handler::LowerOrSame => branch_if(p, pc, word, Condition::LowerOrSame),
        Handler::OverflowClear => branch_if(p, pc, word, Condition::OverflowClear),
        Handler::OverflowSet => branch_if(p, pc, word, Condition::OverflowSet),
        Handler::CarryClear => branch_if(p, pc, word, Condition::CarryClear),
        Handler::CarrySet => branch_if(p, pc, word, Condition::CarrySet),
        Handler::Sob => count(p, pc, word),
        Handler::JmpA => jump::<P, Absolute>(p, pc, word),
        Handler::JmpL => jump::<P, Relative>(p, pc, word),
        Handler::JmpD => jump::<P, Deferred>(p, pc, word),
        Handler::JsrA => jump_to_subroutine::<P, Absolute>(p, pc, word),
        Handler::JsrL => jump_to_subroutine::<P, Relative>(p, pc, word),
        Handler::Rts => return_by(p, pc, word),
        Handler::XorRR => exclusive_or::<P, Register, Register>(p, pc, word),
        Handler::SwabR => exchange::<P, Register>(p, pc, word),
        _ => Err(Halt::Missed),
    }
}

/// The row of a word by its handler, for the less frequent ones. Where it misses, nothing has changed. The rows stand in
/// several functions, since the compiler makes code in place of a call of none that is too large.
#[inline(always)]
pub fn perform_apart<P: Processor>(
    p: &mut P,
    handler: Handler,
    pc: usize,
    word: u32,
) -> Result<(), Halt>
    requires handles { Handles handler word }
    requires word { word < 65536 }
    requires room { pc ≤ 65538 }
    ensures row { Ends result (P.machine p.new)
        (finished (P.machine p.old).image (row_of (at_pc (P.machine p.old) pc) word (decode_of word))) }
    ensures kept { IsMissed result → P.machine p.new ≡ P.machine p.old }
    ensures missed { family_of handler ≡ Apart → IsMissed result → P.MayMiss }
    ensures trapped { IsTrapped result → P.MayTrap }
    ensures rest { P.rest p.new ≡ P.rest p.old }
{
    match handler {
        Handler::MovIA => move_to::<P, Words, Immediate, Absolute>(p, pc, word),
        Handler::MovIX => move_to::<P, Words, Immediate, Indexed>(p, pc, word),
        Handler::MovIM => move_to::<P, Words, Immediate, Autodecrement>(p, pc, word),
        Handler::CmpDR => compare::<P, Words, Deferred, Register, Comparison>(p, pc, word),
        Handler::CmpPR => compare::<P, Words, Autoincrement, Register, Comparison>(p, pc, word),
        Handler::CmpLR => compare::<P, Words, Relative, Register, Comparison>(p, pc, word),
        Handler::CmpRA => compare::<P, Words, Register, Absolute, Comparison>(p, pc, word),
        Handler::CmpRX => compare::<P, Words, Register, Indexed, Comparison>(p, pc, word),
        Handler::CmpRD => compare::<P, Words, Register, Deferred, Comparison>(p, pc, word),
        Handler::CmpXI => compare::<P, Words, Indexed, Immediate, Comparison>(p, pc, word),
        Handler::CmpAI => compare::<P, Words, Absolute, Immediate, Comparison>(p, pc, word),
        Handler::AddDR => join::<P, Words, Deferred, Register, Addition>(p, pc, word),
        Handler::AddPR => join::<P, Words, Autoincrement, Register, Addition>(p, pc, word),
        Handler::AddLR => join::<P, Words, Relative, Register, Addition>(p, pc, word),
        Handler::AddRD => join::<P, Words, Register, Deferred, Addition>(p, pc, word),
        Handler::AddRP => join::<P, Words, Register, Autoincrement, Addition>(p, pc, word),
        Handler::AddIX => join::<P, Words, Immediate, Indexed, Addition>(p, pc, word),
        Handler::AddIA => join::<P, Words, Immediate, Absolute, Addition>(p, pc, word),
        Handler::SubAR => join::<P, Words, Absolute, Register, Subtraction>(p, pc, word),
        Handler::SubXR => join::<P, Words, Indexed, Register, Subtraction>(p, pc, word),
        Handler::SubDR => join::<P, Words, Deferred, Register, Subtraction>(p, pc, word),
        Handler::SubPR => join::<P, Words, Autoincrement, Register, Subtraction>(p, pc, word),
        Handler::SubLR => join::<P, Words, Relative, Register, Subtraction>(p, pc, word),
        Handler::SubRA => join::<P, Words, Register, Absolute, Subtraction>(p, pc, word),
        Handler::SubRX => join::<P, Words, Register, Indexed, Subtraction>(p, pc, word),
        Handler::SubIX => join::<P, Words, Immediate, Indexed, Subtraction>(p, pc, word),
        Handler::BitAR => compare::<P, Words, Absolute, Register, BitTest>(p, pc, word),
        Handler::BitXR => compare::<P, Words, Indexed, Register, BitTest>(p, pc, word),
        Handler::BicAR => join::<P, Words, Absolute, Register, BitClear>(p, pc, word),
        Handler::BicXR => join::<P, Words, Indexed, Register, BitClear>(p, pc, word),
        Handler::BicRA => join::<P, Words, Register, Absolute, BitClear>(p, pc, word),
        Handler::BicRX => join::<P, Words, Register, Indexed, BitClear>(p, pc, word),
        Handler::BicIX => join::<P, Words, Immediate, Indexed, BitClear>(p, pc, word),
        Handler::BisAR => join::<P, Words, Absolute, Register, BitSet>(p, pc, word),
        Handler::BisXR => join::<P, Words, Indexed, Register, BitSet>(p, pc, word),
        Handler::BisRA => join::<P, Words, Register, Absolute, BitSet>(p, pc, word),
        Handler::BisRX => join::<P, Words, Register, Indexed, BitSet>(p, pc, word),
        Handler::BisIX => join::<P, Words, Immediate, Indexed, BitSet>(p, pc, word),
        Handler::ClrD => clear::<P, Words, Deferred>(p, pc, word),
        Handler::ClrP => clear::<P, Words, Autoincrement>(p, pc, word),
        Handler::ClrL => clear::<P, Words, Relative>(p, pc, word),
        Handler::IncD => modify::<P, Words, Deferred, Increasing>(p, pc, word, &Increasing),
        Handler::IncP => modify::<P, Words, Autoincrement, Increasing>(p, pc, word, &Increasing),
        Handler::IncL => modify::<P, Words, Relative, Increasing>(p, pc, word, &Increasing),
        Handler::DecD => modify::<P, Words, Deferred, Decreasing>(p, pc, word, &Decreasing),
        Handler::DecP => modify::<P, Words, Autoincrement, Decreasing>(p, pc, word, &Decreasing),
        Handler::DecL => modify::<P, Words, Relative, Decreasing>(p, pc, word, &Decreasing),
        Handler::TstD => test::<P, Words, Deferred>(p, pc, word),
        Handler::TstM => test::<P, Words, Autodecrement>(p, pc, word),
        _ => Err(Halt::Missed),
    }
}

/// The row of a word by its handler, for those with two operands in memory, or with one there and an immediate one. Where it
/// misses, nothing has changed.
#[inline(always)]
pub fn perform_between<P: Processor>(
    p: &mut P,
    handler: Handler,
    pc: usize,
    word: u32,
) -> Result<(), Halt>
    requires handles { Handles handler word }
    requires word { word < 65536 }
    requires room { pc ≤ 65538 }
    ensures row { Ends result (P.machine p.new)
        (finished (P.machine p.old).image (row_of (at_pc (P.machine p.old) pc) word (decode_of word))) }
    ensures kept { IsMissed result → P.machine p.new ≡ P.machine p.old }
    ensures missed { family_of handler ≡ Between → IsMissed result → P.MayMiss }
    ensures trapped { IsTrapped result → P.MayTrap }
    ensures rest { P.rest p.new ≡ P.rest p.old }
{
    match handler {
        Handler::MovDD => move_to::<P, Words, Deferred, Deferred>(p, pc, word),
        Handler::MovAA => move_to::<P, Words, Absolute, Absolute>(p, pc, word),
        Handler::MovDM => move_to::<P, Words, Deferred, Autodecrement>(p, pc, word),
        Handler::MovID => move_to::<P, Words, Immediate, Deferred>(p, pc, word),
        Handler::MovXD => move_to::<P, Words, Indexed, Deferred>(p, pc, word),
        Handler::MovDX => move_to::<P, Words, Deferred, Indexed>(p, pc, word),
        Handler::CmpDD => compare::<P, Words, Deferred, Deferred, Comparison>(p, pc, word),
        Handler::CmpAA => compare::<P, Words, Absolute, Absolute, Comparison>(p, pc, word),
        Handler::CmpDI => compare::<P, Words, Deferred, Immediate, Comparison>(p, pc, word),
        Handler::AddDD => join::<P, Words, Deferred, Deferred, Addition>(p, pc, word),
        Handler::AddAA => join::<P, Words, Absolute, Absolute, Addition>(p, pc, word),
        Handler::AddID => join::<P, Words, Immediate, Deferred, Addition>(p, pc, word),
        Handler::BitIA => compare::<P, Words, Immediate, Absolute, BitTest>(p, pc, word),
        Handler::BitIX => compare::<P, Words, Immediate, Indexed, BitTest>(p, pc, word),
        Handler::BisIA => join::<P, Words, Immediate, Absolute, BitSet>(p, pc, word),
        Handler::BicIA => join::<P, Words, Immediate, Absolute, BitClear>(p, pc, word),
        Handler::MovXX => move_to::<P, Words, Indexed, Indexed>(p, pc, word),
        Handler::MovXM => move_to::<P, Words, Indexed, Autodecrement>(p, pc, word),
        Handler::MovAM => move_to::<P, Words, Absolute, Autodecrement>(p, pc, word),
        _ => Err(Halt::Missed),
    }
}

/// The row of a word by its handler, for MUL, DIV, ASH, ASHC, SXT, RTI, the condition codes, and some that change a word in
/// memory. Where it misses, nothing has changed.
#[inline(always)]
pub fn perform_extended<P: Processor>(
    p: &mut P,
    handler: Handler,
    pc: usize,
    word: u32,
) -> Result<(), Halt>
    requires handles { Handles handler word }
    requires word { word < 65536 }
    requires room { pc ≤ 65538 }
    ensures row { Ends result (P.machine p.new)
        (finished (P.machine p.old).image (row_of (at_pc (P.machine p.old) pc) word (decode_of word))) }
    ensures kept { IsMissed result → P.machine p.new ≡ P.machine p.old }
    ensures missed { family_of handler ≡ Extended → IsMissed result → P.MayMiss }
    ensures trapped { IsTrapped result → P.MayTrap }
    ensures rest { P.rest p.new ≡ P.rest p.old }
{
    match handler {
        Handler::SxtR => extend_sign::<P, Register>(p, pc, word),
        Handler::ClearCodes => set_codes(p, pc, false, names_in(word)),
        Handler::SetCodes => set_codes(p, pc, true, names_in(word)),
        Handler::Rti => resume(p, pc),
        Handler::MulR => multiply::<P, Register>(p, pc, word),
        Handler::MulI => multiply::<P, Immediate>(p, pc, word),
        Handler::MulX => multiply::<P, Indexed>(p, pc, word),
        Handler::DivR => divide::<P, Register>(p, pc, word),
        Handler::DivI => divide::<P, Immediate>(p, pc, word),
        Handler::DivX => divide::<P, Indexed>(p, pc, word),
        Handler::AshR => shift_reg::<P, Register>(p, pc, word),
        Handler::AshI => shift_reg::<P, Immediate>(p, pc, word),
        Handler::AshX => shift_reg::<P, Indexed>(p, pc, word),
        Handler::AshcR => shift_pair::<P, Register>(p, pc, word),
        Handler::AshcI => shift_pair::<P, Immediate>(p, pc, word),
        Handler::AshcX => shift_pair::<P, Indexed>(p, pc, word),
        Handler::AdcA => modify::<P, Words, Absolute, AddingCarry>(p, pc, word, &AddingCarry),
        Handler::AdcX => modify::<P, Words, Indexed, AddingCarry>(p, pc, word, &AddingCarry),
        Handler::AslA => modify::<P, Words, Absolute, ShiftingLeft>(p, pc, word, &ShiftingLeft),
        Handler::AsrA => modify::<P, Words, Absolute, ShiftingRight>(p, pc, word, &ShiftingRight),
        Handler::NegA => modify::<P, Words, Absolute, Negating>(p, pc, word, &Negating),
        _ => Err(Halt::Missed),
    }
}

/// The row of a word by its handler, for those that work on bytes. Where it misses, nothing has changed.
#[inline(always)]
pub fn perform_bytes<P: Processor>(
    p: &mut P,
    handler: Handler,
    pc: usize,
    word: u32,
) -> Result<(), Halt>
    requires handles { Handles handler word }
    requires word { word < 65536 }
    requires room { pc ≤ 65538 }
    ensures row { Ends result (P.machine p.new)
        (finished (P.machine p.old).image (row_of (at_pc (P.machine p.old) pc) word (decode_of word))) }
    ensures kept { IsMissed result → P.machine p.new ≡ P.machine p.old }
    ensures missed { family_of handler ≡ OfBytes → IsMissed result → P.MayMiss }
    ensures trapped { IsTrapped result → P.MayTrap }
    ensures rest { P.rest p.new ≡ P.rest p.old }
{
    match handler {
        Handler::MovbAR => move_to::<P, Bytes, Absolute, Register>(p, pc, word),
        Handler::MovbRA => move_to::<P, Bytes, Register, Absolute>(p, pc, word),
        Handler::MovbRM => move_to::<P, Bytes, Register, Autodecrement>(p, pc, word),
        Handler::MovbIX => move_to::<P, Bytes, Immediate, Indexed>(p, pc, word),
        Handler::MovbAA => move_to::<P, Bytes, Absolute, Absolute>(p, pc, word),
        Handler::MovbDD => move_to::<P, Bytes, Deferred, Deferred>(p, pc, word),
        Handler::MovbIA => move_to::<P, Bytes, Immediate, Absolute>(p, pc, word),
        Handler::MovbID => move_to::<P, Bytes, Immediate, Deferred>(p, pc, word),
        Handler::CmpbRR => compare::<P, Bytes, Register, Register, Comparison>(p, pc, word),
        Handler::CmpbDR => compare::<P, Bytes, Deferred, Register, Comparison>(p, pc, word),
        Handler::CmpbPR => compare::<P, Bytes, Autoincrement, Register, Comparison>(p, pc, word),
        Handler::CmpbXR => compare::<P, Bytes, Indexed, Register, Comparison>(p, pc, word),
        Handler::CmpbRD => compare::<P, Bytes, Register, Deferred, Comparison>(p, pc, word),
        Handler::CmpbAR => compare::<P, Bytes, Absolute, Register, Comparison>(p, pc, word),
        Handler::CmpbAI => compare::<P, Bytes, Absolute, Immediate, Comparison>(p, pc, word),
        Handler::CmpbXI => compare::<P, Bytes, Indexed, Immediate, Comparison>(p, pc, word),
        Handler::CmpbDI => compare::<P, Bytes, Deferred, Immediate, Comparison>(p, pc, word),
        Handler::BitbRR => compare::<P, Bytes, Register, Register, BitTest>(p, pc, word),
        Handler::BitbIR => compare::<P, Bytes, Immediate, Register, BitTest>(p, pc, word),
        Handler::BitbAR => compare::<P, Bytes, Absolute, Register, BitTest>(p, pc, word),
        Handler::BitbIX => compare::<P, Bytes, Immediate, Indexed, BitTest>(p, pc, word),
        Handler::BitbID => compare::<P, Bytes, Immediate, Deferred, BitTest>(p, pc, word),
        Handler::BicbRR => join::<P, Bytes, Register, Register, BitClear>(p, pc, word),
        Handler::BicbIR => join::<P, Bytes, Immediate, Register, BitClear>(p, pc, word),
        Handler::BisbRR => join::<P, Bytes, Register, Register, BitSet>(p, pc, word),
        Handler::BisbIR => join::<P, Bytes, Immediate, Register, BitSet>(p, pc, word),
        Handler::BisbDR => join::<P, Bytes, Deferred, Register, BitSet>(p, pc, word),
        Handler::BisbPR => join::<P, Bytes, Autoincrement, Register, BitSet>(p, pc, word),
        Handler::BisbRD => join::<P, Bytes, Register, Deferred, BitSet>(p, pc, word),
        Handler::BisbRP => join::<P, Bytes, Register, Autoincrement, BitSet>(p, pc, word),
        Handler::BisbRA => join::<P, Bytes, Register, Absolute, BitSet>(p, pc, word),
        Handler::CombR => modify::<P, Bytes, Register, Complementing>(p, pc, word, &Complementing),
        Handler::IncbR => modify::<P, Bytes, Register, Increasing>(p, pc, word, &Increasing),
        Handler::IncbA => modify::<P, Bytes, Absolute, Increasing>(p, pc, word, &Increasing),
        Handler::IncbX => modify::<P, Bytes, Indexed, Increasing>(p, pc, word, &Increasing),
        Handler::DecbR => modify::<P, Bytes, Register, Decreasing>(p, pc, word, &Decreasing),
        Handler::DecbA => modify::<P, Bytes, Absolute, Decreasing>(p, pc, word, &Decreasing),
        Handler::NegbR => modify::<P, Bytes, Register, Negating>(p, pc, word, &Negating),
        Handler::AdcbR => modify::<P, Bytes, Register, AddingCarry>(p, pc, word, &AddingCarry),
        Handler::SbcbR => modify::<P, Bytes, Register, SubtractingCarry>(
            p,
            pc,
            word,
            &SubtractingCarry,
        ),
        Handler::RorbR => modify::<P, Bytes, Register, RotatingRight>(p, pc, word, &RotatingRight),
        Handler::RolbR => modify::<P, Bytes, Register, RotatingLeft>(p, pc, word, &RotatingLeft),
        Handler::AsrbR => modify::<P, Bytes, Register, ShiftingRight>(p, pc, word, &ShiftingRight),
        Handler::AslbR => modify::<P, Bytes, Register, ShiftingLeft>(p, pc, word, &ShiftingLeft),
        Handler::ClrbR => clear::<P, Bytes, Register>(p, pc, word),
        Handler::ClrbA => clear::<P, Bytes, Absolute>(p, pc, word),
        Handler::ClrbX => clear::<P, Bytes, Indexed>(p, pc, word),
        Handler::ClrbD => clear::<P, Bytes, Deferred>(p, pc, word),
        Handler::ClrbP => clear::<P, Bytes, Autoincrement>(p, pc, word),
        Handler::TstbR => test::<P, Bytes, Register>(p, pc, word),
        Handler::TstbA => test::<P, Bytes, Absolute>(p, pc, word),
        Handler::TstbX => test::<P, Bytes, Indexed>(p, pc, word),
        Handler::TstbD => test::<P, Bytes, Deferred>(p, pc, word),
        Handler::TstbP => test::<P, Bytes, Autoincrement>(p, pc, word),
        _ => Err(Halt::Missed),
    }
}

/// The row of a word by its handler, for those whose source steps before the destination is located: where it misses, the
/// registers are as they were by then, and no byte has changed.
#[inline(always)]
pub fn perform_stepping<P: Processor>(
    p: &mut P,
    handler: Handler,
    pc: usize,
    word: u32,
) -> Result<(), Halt>
    requires handles { Handles handler word }
    requires word { word < 65536 }
    requires room { pc ≤ 65538 }
    ensures row { Ends result (P.machine p.new)
        (finished (P.machine p.old).image (row_of (at_pc (P.machine p.old) pc) word (decode_of word))) }
    ensures image { IsMissed result → (P.machine p.new).image ≡ (P.machine p.old).image }
    ensures missed { family_of handler ≡ Stepping → IsMissed result → P.MayMiss }
    ensures trapped { IsTrapped result → P.MayTrap }
    ensures rest { P.rest p.new ≡ P.rest p.old }
{
    match handler {
        Handler::MovPP => move_to::<P, Words, Autoincrement, Autoincrement>(p, pc, word),
        Handler::MovPD => move_to::<P, Words, Autoincrement, Deferred>(p, pc, word),
        Handler::MovPM => move_to::<P, Words, Autoincrement, Autodecrement>(p, pc, word),
        Handler::MovPX => move_to::<P, Words, Autoincrement, Indexed>(p, pc, word),
        Handler::MovbPP => move_to::<P, Bytes, Autoincrement, Autoincrement>(p, pc, word),
        Handler::MovbPD => move_to::<P, Bytes, Autoincrement, Deferred>(p, pc, word),
        Handler::CmpbPI => compare::<P, Bytes, Autoincrement, Immediate, Comparison>(p, pc, word),
        Handler::CmpbPP => compare::<P, Bytes, Autoincrement, Autoincrement, Comparison>(
            p, pc, word,
        ),
        _ => Err(Halt::Missed),
    }
}
