//! A word to an instruction, by its octal digits from the left.
ghost use Rattle.std.specs.Prelude.{◌≡◌, ◌+◌, ◌*◌, ◌/◌, ◌%◌, ◌<◌, ◌≤◌, ◌⊎◌};
ghost use Rattle.pdp_decode.specs.declared.instr.Instr.{Instr};
ghost use Rattle.pdp_decode.specs.Numbers.{mode_code, reg_code, code, byte_bit, flag_bits, branch_code};
ghost use Rattle.pdp_decode.specs.Table.{IsWordOf};
ghost use Rattle.pdp_decode.specs.Decode.{mode_of, reg_of, operand_of, flags_of, condition_of, at_address, plain_of, return_of, basic_of, single_of, low_of, extended_of, high_of, decode_of};

use crate::instr::{Condition, Flags, Instr, Mode, Operand, Reg, SoftTrap, Width};

/// The instruction that a word is; each word is exactly one.
#[inline(always)]
pub fn decode(word: u16) -> Instr
    ensures value { result ≡ decode_of word }
    ensures word { IsWordOf result word }
    ensures only { (i : Instr) → IsWordOf i word → i ≡ result }
{
    read(word)
}

#[inline(always)]
#[tactic(auto, unfolding(crate::specs::Decode::decode_of))]
fn read(word: u16) -> Instr
    ensures value { result ≡ decode_of word }
    ensures word { IsWordOf result word }
{
    match word / 0o10000 {
        0o00 => low(word),
        0o01 => Instr::Mov(Width::Word, source(word), operand(word)),
        0o02 => Instr::Cmp(Width::Word, source(word), operand(word)),
        0o03 => Instr::Bit(Width::Word, source(word), operand(word)),
        0o04 => Instr::Bic(Width::Word, source(word), operand(word)),
        0o05 => Instr::Bis(Width::Word, source(word), operand(word)),
        0o06 => Instr::Add(source(word), operand(word)),
        0o07 => extended(word),
        0o10 => high(word),
        0o11 => Instr::Mov(Width::Byte, source(word), operand(word)),
        0o12 => Instr::Cmp(Width::Byte, source(word), operand(word)),
        0o13 => Instr::Bit(Width::Byte, source(word), operand(word)),
        0o14 => Instr::Bic(Width::Byte, source(word), operand(word)),
        0o15 => Instr::Bis(Width::Byte, source(word), operand(word)),
        0o16 => Instr::Sub(source(word), operand(word)),
        _ => Instr::Illegal,
    }
}

// The words 00xxxx.
#[inline(always)]
#[tactic(auto, unfolding(crate::specs::Decode::low_of))]
fn low(word: u16) -> Instr
    requires { word < 0o010000 }
    ensures value { result ≡ low_of word }
    ensures word { IsWordOf result word }
{
    let row = word / 0o100 % 0o100;
    match row {
        0o0..=0o3 => basic(word),
        0o4..=0o37 => Instr::Branch(condition(word), (word % 0o400) as u8),
        0o40..=0o47 => subroutine(word),
        0o50..=0o63 => single(Width::Word, row, operand(word)),
        0o64 => Instr::Mark((word % 0o100) as u8),
        0o67 => Instr::Sxt(operand(word)),
        _ => Instr::Illegal,
    }
}

// The words 0000xx to 0003xx.
#[inline(always)]
#[tactic(auto, unfolding(crate::specs::Decode::basic_of))]
fn basic(word: u16) -> Instr
    requires { word < 0o000400 }
    ensures value { result ≡ basic_of word }
    ensures word { IsWordOf result word }
{
    match word / 0o100 % 0o100 {
        0 => plain(word % 0o100),
        1 => jump(word),
        2 => returning(word % 0o100),
        _ => Instr::Swab(operand(word)),
    }
}

// The words 0000xx.
#[inline(always)]
#[tactic(auto, unfolding(crate::specs::Decode::plain_of))]
fn plain(rest: u16) -> Instr
    requires { rest < 0o100 }
    ensures value { result ≡ plain_of rest }
    ensures word { IsWordOf result rest }
{
    match rest {
        1 => Instr::Wait,
        2 => Instr::Rti,
        3 => Instr::SoftTrap(SoftTrap::Bpt),
        4 => Instr::SoftTrap(SoftTrap::Iot),
        5 => Instr::Wait,
        6 => Instr::Rti,
        _ => Instr::Illegal,
    }
}

// The words 0001xx.
#[inline(always)]
fn jump(word: u16) -> Instr
    requires { word / 0o100 ≡ 1 }
    ensures value { result ≡ at_address (operand_of word).mode (Instr.Jmp (operand_of word)) }
    ensures word { IsWordOf result word }
{
    let dest = operand(word);
    match dest.mode {
        Mode::Register => Instr::Illegal, // JMP R
        _ => Instr::Jmp(dest),
    }
}

// The words 0002xx.
#[inline(always)]
#[tactic(auto, unfolding(crate::specs::Decode::return_of))]
fn returning(rest: u16) -> Instr
    requires { rest < 0o100 }
    ensures value { result ≡ return_of rest }
    ensures word { IsWordOf result (0o000200 + rest) }
{
    match rest {
        0o0..=0o7 => Instr::Rts(reg(rest)),
        0o10..=0o37 => Instr::Illegal,
        _ => Instr::Codes(rest / 0o20 == 3, flags(rest)),
    }
}

// The words 004xxx.
#[inline(always)]
fn subroutine(word: u16) -> Instr
    requires { word / 0o1000 ≡ 4 }
    ensures value { result ≡ at_address (operand_of word).mode (Instr.Jsr (reg_of (word / 0o100 % 0o10)) (operand_of word)) }
    ensures word { IsWordOf result word }
{
    let dest = operand(word);
    match dest.mode {
        Mode::Register => Instr::Illegal,
        _ => Instr::Jsr(reg(word / 0o100), dest),
    }
}

// The words x050xx to x063xx, by their row and their operand.
#[inline(always)]
#[tactic(auto, unfolding(crate::specs::Decode::single_of))]
fn single(width: Width, row: u16, dest: Operand) -> Instr
    requires low { 0o50 ≤ row }
    requires high { row ≤ 0o63 }
    ensures value { result ≡ single_of width row dest }
    ensures word { IsWordOf result (byte_bit width + 0o100 * row + code dest) }
{
    match row {
        0o50 => Instr::Clr(width, dest),
        0o51 => Instr::Com(width, dest),
        0o52 => Instr::Inc(width, dest),
        0o53 => Instr::Dec(width, dest),
        0o54 => Instr::Neg(width, dest),
        0o55 => Instr::Adc(width, dest),
        0o56 => Instr::Sbc(width, dest),
        0o57 => Instr::Tst(width, dest),
        0o60 => Instr::Ror(width, dest),
        0o61 => Instr::Rol(width, dest),
        0o62 => Instr::Asr(width, dest),
        _ => Instr::Asl(width, dest),
    }
}

// The words 07xxxx.
#[inline(always)]
#[tactic(auto, unfolding(crate::specs::Decode::extended_of))]
fn extended(word: u16) -> Instr
    requires { word / 0o10000 ≡ 7 }
    ensures value { result ≡ extended_of word }
    ensures word { IsWordOf result word }
{
    match word / 0o1000 % 0o10 {
        0 => Instr::Mul(reg(word / 0o100), operand(word)),
        1 => Instr::Div(reg(word / 0o100), operand(word)),
        2 => Instr::Ash(reg(word / 0o100), operand(word)),
        3 => Instr::Ashc(reg(word / 0o100), operand(word)),
        4 => Instr::Xor(reg(word / 0o100), operand(word)),
        7 => Instr::Sob(reg(word / 0o100), (word % 0o100) as u8),
        _ => Instr::Illegal,
    }
}

// The words 10xxxx.
#[inline(always)]
#[tactic(auto, unfolding(crate::specs::Decode::high_of))]
fn high(word: u16) -> Instr
    requires { word / 0o10000 ≡ 0o10 }
    ensures value { result ≡ high_of word }
    ensures word { IsWordOf result word }
{
    let row = word / 0o100 % 0o100;
    match row {
        0o0..=0o37 => Instr::Branch(condition(word), (word % 0o400) as u8),
        0o40..=0o43 => Instr::Emt,
        0o44..=0o47 => Instr::Sys((word % 0o100) as u8),
        0o50..=0o63 => single(Width::Byte, row, operand(word)),
        _ => Instr::Illegal,
    }
}

// The operand of the two low octal digits.
#[inline(always)]
#[tactic(auto, unfolding(crate::specs::Decode::operand_of))]
fn operand(bits: u16) -> Operand
    ensures value { result ≡ operand_of bits }
    ensures code { code result ≡ bits % 0o100 }
{
    Operand {
        mode: mode(bits / 0o10),
        reg: reg(bits),
    }
}

// The operand of the two digits above.
#[inline(always)]
fn source(word: u16) -> Operand
    ensures value { result ≡ operand_of (word / 0o100) }
    ensures code { code result ≡ word / 0o100 % 0o100 }
{
    operand(word / 0o100)
}

#[inline(always)]
#[tactic(auto, unfolding(crate::specs::Decode::mode_of))]
fn mode(bits: u16) -> Mode
    ensures value { result ≡ mode_of (bits % 0o10) }
    ensures code { mode_code result ≡ bits % 0o10 }
{
    match bits % 0o10 {
        0 => Mode::Register,
        1 => Mode::Deferred,
        2 => Mode::Increment,
        3 => Mode::IncrementDeferred,
        4 => Mode::Decrement,
        5 => Mode::DecrementDeferred,
        6 => Mode::Index,
        _ => Mode::IndexDeferred,
    }
}

#[inline(always)]
#[tactic(auto, unfolding(crate::specs::Decode::reg_of))]
fn reg(bits: u16) -> Reg
    ensures value { result ≡ reg_of (bits % 0o10) }
    ensures code { reg_code result ≡ bits % 0o10 }
{
    match bits % 0o10 {
        0 => Reg::R0,
        1 => Reg::R1,
        2 => Reg::R2,
        3 => Reg::R3,
        4 => Reg::R4,
        5 => Reg::R5,
        6 => Reg::Sp,
        _ => Reg::Pc,
    }
}

#[inline(always)]
#[tactic(auto, unfolding(crate::specs::Decode::flags_of))]
fn flags(bits: u16) -> Flags
    ensures value { result ≡ flags_of bits }
    ensures code { flag_bits result ≡ bits % 0o20 }
{
    Flags {
        n: bits / 0o10 % 2 == 1,
        z: bits / 0o4 % 2 == 1,
        v: bits / 0o2 % 2 == 1,
        c: bits % 2 == 1,
    }
}

// The condition of a branch, by the word's high byte.
#[inline(always)]
#[tactic(auto, unfolding(crate::specs::Decode::condition_of))]
fn condition(word: u16) -> Condition
    requires low { 0o000400 ≤ word }
    requires range { (word < 0o004000) ⊎ ((0o100000 ≤ word) × (word < 0o104000)) }
    ensures value { result ≡ condition_of (word / 0o400) }
    ensures code { branch_code result ≡ word / 0o400 * 0o400 }
{
    match word / 0o400 {
        0o001 => Condition::Always,
        0o002 => Condition::NotEqual,
        0o003 => Condition::Equal,
        0o004 => Condition::GreaterOrEqual,
        0o005 => Condition::Less,
        0o006 => Condition::Greater,
        0o007 => Condition::LessOrEqual,
        0o200 => Condition::Plus,
        0o201 => Condition::Minus,
        0o202 => Condition::Higher,
        0o203 => Condition::LowerOrSame,
        0o204 => Condition::OverflowClear,
        0o205 => Condition::OverflowSet,
        0o206 => Condition::CarryClear,
        _ => Condition::CarrySet,
    }
}
