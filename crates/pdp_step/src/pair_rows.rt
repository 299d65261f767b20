//! The rows of MUL, DIV, ASH and ASHC, over any addressing mode.
ghost use Rattle.std.specs.Prelude.{◌≡◌, ◌/◌, ◌%◌, ◌≤◌, ◌<◌, IsTrue};
ghost use Rattle.pdp_decode.specs.declared.instr.Width.{Width};
ghost use Rattle.pdp_decode.specs.Decode.{reg_of, operand_of};
ghost use Rattle.pdp_decode.specs.Handlers.{IsAddressed};
ghost use Rattle.pdp_step.specs.Machine.{with_codes};
ghost use Rattle.pdp_step.specs.Rows.{odd_of, with_pair, pair_in, division_of, multiplied, divided, shifted_reg, shifted_pair};
ghost use Rattle.pdp_step.specs.Instruction.{go};
ghost use Rattle.pdp_step.specs.After.{finished};
ghost use Rattle.pdp_step.specs.Parts.{at_pc, IsMissed, IsTrapped, Ends};

use crate::addressing_mode::{AddressingMode, set_pc};
use crate::extended::{fits, product, product_flags, quotient, remainder, shift, shift_flags};
use crate::halt::Halt;
use crate::processor::Processor;
use crate::regs::pack;
use crate::size::Words;

// A register's odd neighbour: R6's is PC.
#[inline(always)]
#[tactic(auto, unfolding(pdp_decode::specs::Decode::reg_of))]
fn odd(n: u32) -> u32
    ensures { reg_of (result % 8) ≡ odd_of (reg_of (n % 8)) }
{
    match n % 8 {
        0 => 1,
        1 => 1,
        2 => 3,
        3 => 3,
        4 => 5,
        5 => 5,
        6 => 7,
        _ => 7,
    }
}

// The double word of a pair of registers.
#[inline(always)]
fn pair<P: Processor>(p: &P, n: u32) -> u32
    ensures { result ≡ pair_in (P.machine p.now) (reg_of (n % 8)) }
{
    65536 * p.reg(n) as u32 + p.reg(odd(n)) as u32
}

// Puts a double word into a pair of registers, the low word last, with codes.
#[inline(always)]
fn hold_pair<P: Processor>(p: &mut P, n: u32, high: u16, low: u16, cc: u8)
    requires { cc < 16 }
    ensures machine { P.machine p.new ≡ with_codes (with_pair (P.machine p.old) (reg_of (n % 8)) high low) cc }
    ensures rest { P.rest p.new ≡ P.rest p.old }
{
    p.set_reg(n, high);
    p.set_reg(odd(n), low);
    p.set_cc(cc);
}

/// MUL.
#[inline(always)]
pub fn multiply<P: Processor, S: AddressingMode>(
    p: &mut P,
    from: usize,
    word: u32,
) -> Result<(), Halt>
    requires source { IsAddressed S.addressing Width.Word (operand_of word) }
    requires room { from ≤ 65538 }
    ensures row { Ends result (P.machine p.new)
        (finished (P.machine p.old).image
        (go (multiplied (at_pc (P.machine p.old) from) (reg_of (word / 64 % 8)) (operand_of word)))) }
    ensures kept { IsTrue S.late → IsMissed result → P.machine p.new ≡ P.machine p.old }
    ensures image { IsMissed result → (P.machine p.new).image ≡ (P.machine p.old).image }
    ensures missed { IsMissed result → P.MayMiss }
    ensures trapped { IsTrapped result → P.MayTrap }
    ensures rest { P.rest p.new ≡ P.rest p.old }
{
    let mut pc = from;
    match S::value::<P, Words>(p, &mut pc, word) {
        Ok(source) => {
            set_pc(p, pc);
            let made = product(p.reg(word / 64), source);
            hold_pair(
                p,
                word / 64,
                (made / 65536) as u16,
                (made % 65536) as u16,
                product_flags(made),
            );
            Ok(())
        }
        Err(halt) => Err(halt),
    }
}

// What DIV does with its registers.
#[inline(always)]
#[tactic(auto, unfolding(crate::specs::Rows::division_of))]
fn divide_by<P: Processor>(p: &mut P, n: u32, source: u16)
    ensures machine { P.machine p.new ≡ division_of (P.machine p.old) (reg_of (n % 8)) source }
    ensures image { (P.machine p.new).image ≡ (P.machine p.old).image }
    ensures rest { P.rest p.new ≡ P.rest p.old }
{
    let d = pair(p, n);
    if source == 0 {
        p.set_cc(pack(false, false, true, true));
    } else if !fits(d, source) {
        p.set_cc(pack(false, false, true, false));
    } else {
        let q = quotient(d, source);
        let left = remainder(d, source);
        hold_pair(p, n, q, left, pack(q >= 0o100000, q == 0, false, false));
    }
}

/// DIV.
#[inline(always)]
pub fn divide<P: Processor, S: AddressingMode>(
    p: &mut P,
    from: usize,
    word: u32,
) -> Result<(), Halt>
    requires source { IsAddressed S.addressing Width.Word (operand_of word) }
    requires room { from ≤ 65538 }
    ensures row { Ends result (P.machine p.new)
        (finished (P.machine p.old).image
        (go (divided (at_pc (P.machine p.old) from) (reg_of (word / 64 % 8)) (operand_of word)))) }
    ensures kept { IsTrue S.late → IsMissed result → P.machine p.new ≡ P.machine p.old }
    ensures image { IsMissed result → (P.machine p.new).image ≡ (P.machine p.old).image }
    ensures missed { IsMissed result → P.MayMiss }
    ensures trapped { IsTrapped result → P.MayTrap }
    ensures rest { P.rest p.new ≡ P.rest p.old }
{
    let mut pc = from;
    match S::value::<P, Words>(p, &mut pc, word) {
        Ok(source) => {
            set_pc(p, pc);
            divide_by(p, word / 64, source);
            Ok(())
        }
        Err(halt) => Err(halt),
    }
}

/// ASH.
#[inline(always)]
pub fn shift_reg<P: Processor, S: AddressingMode>(
    p: &mut P,
    from: usize,
    word: u32,
) -> Result<(), Halt>
    requires source { IsAddressed S.addressing Width.Word (operand_of word) }
    requires room { from ≤ 65538 }
    ensures row { Ends result (P.machine p.new)
        (finished (P.machine p.old).image
        (go (shifted_reg (at_pc (P.machine p.old) from) (reg_of (word / 64 % 8)) (operand_of word)))) }
    ensures kept { IsTrue S.late → IsMissed result → P.machine p.new ≡ P.machine p.old }
    ensures image { IsMissed result → (P.machine p.new).image ≡ (P.machine p.old).image }
    ensures missed { IsMissed result → P.MayMiss }
    ensures trapped { IsTrapped result → P.MayTrap }
    ensures rest { P.rest p.new ≡ P.rest p.old }
{
    let mut pc = from;
    match S::value::<P, Words>(p, &mut pc, word) {
        Ok(source) => {
            set_pc(p, pc);
            let x = shift(0o100000, source, p.reg(word / 64) as u32);
            p.set_reg(word / 64, x.value as u16);
            p.set_cc(shift_flags(0o100000, x));
            Ok(())
        }
        Err(halt) => Err(halt),
    }
}

/// ASHC.
#[inline(always)]
pub fn shift_pair<P: Processor, S: AddressingMode>(
    p: &mut P,
    from: usize,
    word: u32,
) -> Result<(), Halt>
    requires source { IsAddressed S.addressing Width.Word (operand_of word) }
    requires room { from ≤ 65538 }
    ensures row { Ends result (P.machine p.new)
        (finished (P.machine p.old).image
        (go (shifted_pair (at_pc (P.machine p.old) from) (reg_of (word / 64 % 8)) (operand_of word)))) }
    ensures kept { IsTrue S.late → IsMissed result → P.machine p.new ≡ P.machine p.old }
    ensures image { IsMissed result → (P.machine p.new).image ≡ (P.machine p.old).image }
    ensures missed { IsMissed result → P.MayMiss }
    ensures trapped { IsTrapped result → P.MayTrap }
    ensures rest { P.rest p.new ≡ P.rest p.old }
{
    let mut pc = from;
    match S::value::<P, Words>(p, &mut pc, word) {
        Ok(source) => {
            set_pc(p, pc);
            let x = shift(0x8000_0000, source, pair(p, word / 64));
            hold_pair(
                p,
                word / 64,
                (x.value / 65536) as u16,
                (x.value % 65536) as u16,
                shift_flags(0x8000_0000, x),
            );
            Ok(())
        }
        Err(halt) => Err(halt),
    }
}
