//! The choice of a handler by the ways to an instruction's operands.
ghost use Rattle.std.specs.Prelude.{ℕ, ◌≡◌, ◌≢◌, ◌/◌, ◌%◌};
ghost use Rattle.pdp_decode.specs.Decode.{reg_of, flags_of, decode_of};
ghost use Rattle.pdp_decode.specs.declared.addressing.Addressing.{Addressing};
ghost use Rattle.pdp_decode.specs.declared.handler.Handler.{Handler};
ghost use Rattle.pdp_decode.specs.declared.instr.Width.{Width};
ghost use Rattle.pdp_decode.specs.declared.instr.Reg.{Reg};
ghost use Rattle.pdp_decode.specs.declared.instr.Instr.{Instr};
ghost use Rattle.pdp_decode.specs.Handlers.{IsDouble, IsSingle, IsExtended, IsBranch, IsSource, IsLabel, Handles};

use crate::addressing::Addressing::{
    self, Absolute, Autodecrement, Autoincrement, Deferred, Immediate, Indexed, Register, Relative,
};
use crate::addressing::is_pc;
use crate::handler::Handler;
use crate::instr::{Condition, Reg, Width};

pub(crate) fn mov(width: Width, source: Addressing, dest: Addressing) -> Handler
    ensures handles { (n : ℕ) → IsDouble n width (Instr.Mov width) source dest → Handles result n }
    ensures known { IsSource source width → dest ≡ Addressing.Register → result ≢ Handler.Other }
{
    match (width, source, dest) {
        (Width::Word, Register, Register) => Handler::MovRR,
        (Width::Word, Immediate, Register) => Handler::MovIR,
        (Width::Word, Absolute, Register) => Handler::MovAR,
        (Width::Word, Indexed, Register) => Handler::MovXR,
        (Width::Word, Deferred, Register) => Handler::MovDR,
        (Width::Word, Autoincrement, Register) => Handler::MovPR,
        (Width::Word, Relative, Register) => Handler::MovLR,
        (Width::Word, Register, Absolute) => Handler::MovRA,
        (Width::Word, Register, Indexed) => Handler::MovRX,
        (Width::Word, Register, Deferred) => Handler::MovRD,
        (Width::Word, Register, Autoincrement) => Handler::MovRP,
        (Width::Word, Register, Autodecrement) => Handler::MovRM,
        (Width::Word, Register, Relative) => Handler::MovRL,
        (Width::Word, Immediate, Absolute) => Handler::MovIA,
        (Width::Word, Immediate, Indexed) => Handler::MovIX,
        (Width::Word, Immediate, Autodecrement) => Handler::MovIM,
        (Width::Word, Absolute, Autodecrement) => Handler::MovAM,
        (Width::Word, Indexed, Indexed) => Handler::MovXX,
        (Width::Word, Indexed, Autodecrement) => Handler::MovXM,
        (Width::Word, Autoincrement, Autoincrement) => Handler::MovPP,
        (Width::Word, Deferred, Deferred) => Handler::MovDD,
        (Width::Word, Absolute, Absolute) => Handler::MovAA,
        (Width::Word, Deferred, Autodecrement) => Handler::MovDM,
        (Width::Word, Autoincrement, Deferred) => Handler::MovPD,
        (Width::Word, Autoincrement, Autodecrement) => Handler::MovPM,
        (Width::Word, Autoincrement, Indexed) => Handler::MovPX,
        (Width::Word, Immediate, Deferred) => Handler::MovID,
        (Width::Word, Indexed, Deferred) => Handler::MovXD,
        (Width::Word, Deferred, Indexed) => Handler::MovDX,
        (Width::Byte, Register, Register) => Handler::MovbRR,
        (Width::Byte, Absolute, Register) => Handler::MovbAR,
        (Width::Byte, Indexed, Register) => Handler::MovbXR,
        (Width::Byte, Deferred, Register) => Handler::MovbDR,
        (Width::Byte, Autoincrement, Register) => Handler::MovbPR,
        (Width::Byte, Register, Absolute) => Handler::MovbRA,
        (Width::Byte, Register, Indexed) => Handler::MovbRX,
        (Width::Byte, Register, Deferred) => Handler::MovbRD,
        (Width::Byte, Register, Autoincrement) => Handler::MovbRP,
        (Width::Byte, Register, Autodecrement) => Handler::MovbRM,
        (Width::Byte, Immediate, Indexed) => Handler::MovbIX,
        (Width::Byte, Autoincrement, Autoincrement) => Handler::MovbPP,
        (Width::Byte, Absolute, Absolute) => Handler::MovbAA,
        (Width::Byte, Deferred, Deferred) => Handler::MovbDD,
        (Width::Byte, Immediate, Absolute) => Handler::MovbIA,
        (Width::Byte, Autoincrement, Deferred) => Handler::MovbPD,
        (Width::Byte, Immediate, Deferred) => Handler::MovbID,
        _ => Handler::Other,
    }
}

pub(crate) fn cmp(width: Width, source: Addressing, dest: Addressing) -> Handler
    ensures handles { (n : ℕ) → IsDouble n width (Instr.Cmp width) source dest → Handles result n }
    ensures known { IsSource source width → dest ≡ Addressing.Register → result ≢ Handler.Other }
{
    match (width, source, dest) {
        (Width::Word, Register, Register) => Handler::CmpRR,
        (Width::Word, Immediate, Register) => Handler::CmpIR,
        (Width::Word, Absolute, Register) => Handler::CmpAR,
        (Width::Word, Indexed, Register) => Handler::CmpXR,
        (Width::Word, Deferred, Register) => Handler::CmpDR,
        (Width::Word, Autoincrement, Register) => Handler::CmpPR,
        (Width::Word, Relative, Register) => Handler::CmpLR,
        (Width::Word, Register, Absolute) => Handler::CmpRA,
        (Width::Word, Register, Indexed) => Handler::CmpRX,
        (Width::Word, Register, Deferred) => Handler::CmpRD,
        (Width::Word, Absolute, Immediate) => Handler::CmpAI,
        (Width::Word, Indexed, Immediate) => Handler::CmpXI,
        (Width::Word, Deferred, Deferred) => Handler::CmpDD,
        (Width::Word, Absolute, Absolute) => Handler::CmpAA,
        (Width::Word, Deferred, Immediate) => Handler::CmpDI,
        (Width::Byte, Register, Register) => Handler::CmpbRR,
        (Width::Byte, Immediate, Register) => Handler::CmpbIR,
        (Width::Byte, Indexed, Register) => Handler::CmpbXR,
        (Width::Byte, Deferred, Register) => Handler::CmpbDR,
        (Width::Byte, Autoincrement, Register) => Handler::CmpbPR,
        (Width::Byte, Register, Deferred) => Handler::CmpbRD,
        (Width::Byte, Autoincrement, Immediate) => Handler::CmpbPI,
        (Width::Byte, Autoincrement, Autoincrement) => Handler::CmpbPP,
        (Width::Byte, Absolute, Register) => Handler::CmpbAR,
        (Width::Byte, Absolute, Immediate) => Handler::CmpbAI,
        (Width::Byte, Indexed, Immediate) => Handler::CmpbXI,
        (Width::Byte, Deferred, Immediate) => Handler::CmpbDI,
        _ => Handler::Other,
    }
}

pub(crate) fn bit(width: Width, source: Addressing, dest: Addressing) -> Handler
    ensures handles { (n : ℕ) → IsDouble n width (Instr.Bit width) source dest → Handles result n }
    ensures known { IsSource source width → dest ≡ Addressing.Register → result ≢ Handler.Other }
{
    match (width, source, dest) {
        (Width::Word, Register, Register) => Handler::BitRR,
        (Width::Word, Immediate, Register) => Handler::BitIR,
        (Width::Word, Absolute, Register) => Handler::BitAR,
        (Width::Word, Indexed, Register) => Handler::BitXR,
        (Width::Word, Immediate, Absolute) => Handler::BitIA,
        (Width::Word, Immediate, Indexed) => Handler::BitIX,
        (Width::Byte, Register, Register) => Handler::BitbRR,
        (Width::Byte, Immediate, Register) => Handler::BitbIR,
        (Width::Byte, Absolute, Register) => Handler::BitbAR,
        (Width::Byte, Immediate, Indexed) => Handler::BitbIX,
        (Width::Byte, Immediate, Deferred) => Handler::BitbID,
        _ => Handler::Other,
    }
}

pub(crate) fn bic(width: Width, source: Addressing, dest: Addressing) -> Handler
    ensures handles { (n : ℕ) → IsDouble n width (Instr.Bic width) source dest → Handles result n }
    ensures known { IsSource source width → dest ≡ Addressing.Register → result ≢ Handler.Other }
{
    match (width, source, dest) {
        (Width::Word, Register, Register) => Handler::BicRR,
        (Width::Word, Immediate, Register) => Handler::BicIR,
        (Width::Word, Absolute, Register) => Handler::BicAR,
        (Width::Word, Indexed, Register) => Handler::BicXR,
        (Width::Word, Register, Absolute) => Handler::BicRA,
        (Width::Word, Register, Indexed) => Handler::BicRX,
        (Width::Word, Immediate, Indexed) => Handler::BicIX,
        (Width::Word, Immediate, Absolute) => Handler::BicIA,
        (Width::Byte, Register, Register) => Handler::BicbRR,
        (Width::Byte, Immediate, Register) => Handler::BicbIR,
        _ => Handler::Other,
    }
}

pub(crate) fn bis(width: Width, source: Addressing, dest: Addressing) -> Handler
    ensures handles { (n : ℕ) → IsDouble n width (Instr.Bis width) source dest → Handles result n }
    ensures known { IsSource source width → dest ≡ Addressing.Register → result ≢ Handler.Other }
{
    match (width, source, dest) {
        (Width::Word, Register, Register) => Handler::BisRR,
        (Width::Word, Immediate, Register) => Handler::BisIR,
        (Width::Word, Absolute, Register) => Handler::BisAR,
        (Width::Word, Indexed, Register) => Handler::BisXR,
        (Width::Word, Register, Absolute) => Handler::BisRA,
        (Width::Word, Register, Indexed) => Handler::BisRX,
        (Width::Word, Immediate, Indexed) => Handler::BisIX,
        (Width::Word, Immediate, Absolute) => Handler::BisIA,
        (Width::Byte, Register, Register) => Handler::BisbRR,
        (Width::Byte, Immediate, Register) => Handler::BisbIR,
        (Width::Byte, Deferred, Register) => Handler::BisbDR,
        (Width::Byte, Autoincrement, Register) => Handler::BisbPR,
        (Width::Byte, Register, Deferred) => Handler::BisbRD,
        (Width::Byte, Register, Autoincrement) => Handler::BisbRP,
        (Width::Byte, Register, Absolute) => Handler::BisbRA,
        _ => Handler::Other,
    }
}

pub(crate) fn add(source: Addressing, dest: Addressing) -> Handler
    ensures handles { (n : ℕ) → IsDouble n Width.Word Instr.Add source dest → Handles result n }
    ensures known { IsSource source Width.Word → dest ≡ Addressing.Register → result ≢ Handler.Other }
{
    match (source, dest) {
        (Register, Register) => Handler::AddRR,
        (Immediate, Register) => Handler::AddIR,
        (Absolute, Register) => Handler::AddAR,
        (Indexed, Register) => Handler::AddXR,
        (Deferred, Register) => Handler::AddDR,
        (Autoincrement, Register) => Handler::AddPR,
        (Relative, Register) => Handler::AddLR,
        (Register, Absolute) => Handler::AddRA,
        (Register, Indexed) => Handler::AddRX,
        (Register, Deferred) => Handler::AddRD,
        (Register, Autoincrement) => Handler::AddRP,
        (Immediate, Absolute) => Handler::AddIA,
        (Immediate, Indexed) => Handler::AddIX,
        (Deferred, Deferred) => Handler::AddDD,
        (Absolute, Absolute) => Handler::AddAA,
        (Immediate, Deferred) => Handler::AddID,
        _ => Handler::Other,
    }
}

pub(crate) fn sub(source: Addressing, dest: Addressing) -> Handler
    ensures handles { (n : ℕ) → IsDouble n Width.Word Instr.Sub source dest → Handles result n }
    ensures known { IsSource source Width.Word → dest ≡ Addressing.Register → result ≢ Handler.Other }
{
    match (source, dest) {
        (Register, Register) => Handler::SubRR,
        (Immediate, Register) => Handler::SubIR,
        (Absolute, Register) => Handler::SubAR,
        (Indexed, Register) => Handler::SubXR,
        (Deferred, Register) => Handler::SubDR,
        (Autoincrement, Register) => Handler::SubPR,
        (Relative, Register) => Handler::SubLR,
        (Register, Absolute) => Handler::SubRA,
        (Register, Indexed) => Handler::SubRX,
        (Immediate, Indexed) => Handler::SubIX,
        _ => Handler::Other,
    }
}

pub(crate) fn clr(width: Width, dest: Addressing) -> Handler
    ensures handles { (n : ℕ) → IsSingle n width (Instr.Clr width) dest → Handles result n }
    ensures known { dest ≡ Addressing.Register → result ≢ Handler.Other }
{
    match (width, dest) {
        (Width::Word, Register) => Handler::ClrR,
        (Width::Word, Absolute) => Handler::ClrA,
        (Width::Word, Indexed) => Handler::ClrX,
        (Width::Word, Autodecrement) => Handler::ClrM,
        (Width::Word, Deferred) => Handler::ClrD,
        (Width::Word, Autoincrement) => Handler::ClrP,
        (Width::Word, Relative) => Handler::ClrL,
        (Width::Byte, Register) => Handler::ClrbR,
        (Width::Byte, Absolute) => Handler::ClrbA,
        (Width::Byte, Indexed) => Handler::ClrbX,
        (Width::Byte, Deferred) => Handler::ClrbD,
        (Width::Byte, Autoincrement) => Handler::ClrbP,
        _ => Handler::Other,
    }
}

pub(crate) fn com(width: Width, dest: Addressing) -> Handler
    ensures handles { (n : ℕ) → IsSingle n width (Instr.Com width) dest → Handles result n }
    ensures known { dest ≡ Addressing.Register → result ≢ Handler.Other }
{
    match (width, dest) {
        (Width::Word, Register) => Handler::ComR,
        (Width::Byte, Register) => Handler::CombR,
        _ => Handler::Other,
    }
}

pub(crate) fn inc(width: Width, dest: Addressing) -> Handler
    ensures handles { (n : ℕ) → IsSingle n width (Instr.Inc width) dest → Handles result n }
    ensures known { dest ≡ Addressing.Register → result ≢ Handler.Other }
{
    match (width, dest) {
        (Width::Word, Register) => Handler::IncR,
        (Width::Word, Absolute) => Handler::IncA,
        (Width::Word, Indexed) => Handler::IncX,
        (Width::Word, Deferred) => Handler::IncD,
        (Width::Word, Autoincrement) => Handler::IncP,
        (Width::Word, Relative) => Handler::IncL,
        (Width::Byte, Register) => Handler::IncbR,
        (Width::Byte, Absolute) => Handler::IncbA,
        (Width::Byte, Indexed) => Handler::IncbX,
        _ => Handler::Other,
    }
}

pub(crate) fn dec(width: Width, dest: Addressing) -> Handler
    ensures handles { (n : ℕ) → IsSingle n width (Instr.Dec width) dest → Handles result n }
    ensures known { dest ≡ Addressing.Register → result ≢ Handler.Other }
{
    match (width, dest) {
        (Width::Word, Register) => Handler::DecR,
        (Width::Word, Absolute) => Handler::DecA,
        (Width::Word, Indexed) => Handler::DecX,
        (Width::Word, Deferred) => Handler::DecD,
        (Width::Word, Autoincrement) => Handler::DecP,
        (Width::Word, Relative) => Handler::DecL,
        (Width::Byte, Register) => Handler::DecbR,
        (Width::Byte, Absolute) => Handler::DecbA,
        _ => Handler::Other,
    }
}

pub(crate) fn neg(width: Width, dest: Addressing) -> Handler
    ensures handles { (n : ℕ) → IsSingle n width (Instr.Neg width) dest → Handles result n }
    ensures known { dest ≡ Addressing.Register → result ≢ Handler.Other }
{
    match (width, dest) {
        (Width::Word, Register) => Handler::NegR,
        (Width::Word, Absolute) => Handler::NegA,
        (Width::Byte, Register) => Handler::NegbR,
        _ => Handler::Other,
    }
}

pub(crate) fn adc(width: Width, dest: Addressing) -> Handler
    ensures handles { (n : ℕ) → IsSingle n width (Instr.Adc width) dest → Handles result n }
    ensures known { dest ≡ Addressing.Register → result ≢ Handler.Other }
{
    match (width, dest) {
        (Width::Word, Register) => Handler::AdcR,
        (Width::Word, Absolute) => Handler::AdcA,
        (Width::Word, Indexed) => Handler::AdcX,
        (Width::Byte, Register) => Handler::AdcbR,
        _ => Handler::Other,
    }
}

pub(crate) fn sbc(width: Width, dest: Addressing) -> Handler
    ensures handles { (n : ℕ) → IsSingle n width (Instr.Sbc width) dest → Handles result n }
    ensures known { dest ≡ Addressing.Register → result ≢ Handler.Other }
{
    match (width, dest) {
        (Width::Word, Register) => Handler::SbcR,
        (Width::Byte, Register) => Handler::SbcbR,
        _ => Handler::Other,
    }
}

pub(crate) fn tst(width: Width, dest: Addressing) -> Handler
    ensures handles { (n : ℕ) → IsSingle n width (Instr.Tst width) dest → Handles result n }
    ensures known { dest ≡ Addressing.Register → result ≢ Handler.Other }
{
    match (width, dest) {
        (Width::Word, Register) => Handler::TstR,
        (Width::Word, Absolute) => Handler::TstA,
        (Width::Word, Indexed) => Handler::TstX,
        (Width::Word, Autoincrement) => Handler::TstP,
        (Width::Word, Relative) => Handler::TstL,
        (Width::Word, Deferred) => Handler::TstD,
        (Width::Word, Autodecrement) => Handler::TstM,
        (Width::Byte, Register) => Handler::TstbR,
        (Width::Byte, Absolute) => Handler::TstbA,
        (Width::Byte, Indexed) => Handler::TstbX,
        (Width::Byte, Deferred) => Handler::TstbD,
        (Width::Byte, Autoincrement) => Handler::TstbP,
        _ => Handler::Other,
    }
}

pub(crate) fn ror(width: Width, dest: Addressing) -> Handler
    ensures handles { (n : ℕ) → IsSingle n width (Instr.Ror width) dest → Handles result n }
    ensures known { dest ≡ Addressing.Register → result ≢ Handler.Other }
{
    match (width, dest) {
        (Width::Word, Register) => Handler::RorR,
        (Width::Byte, Register) => Handler::RorbR,
        _ => Handler::Other,
    }
}

pub(crate) fn rol(width: Width, dest: Addressing) -> Handler
    ensures handles { (n : ℕ) → IsSingle n width (Instr.Rol width) dest → Handles result n }
    ensures known { dest ≡ Addressing.Register → result ≢ Handler.Other }
{
    match (width, dest) {
        (Width::Word, Register) => Handler::RolR,
        (Width::Byte, Register) => Handler::RolbR,
        _ => Handler::Other,
    }
}

pub(crate) fn asr(width: Width, dest: Addressing) -> Handler
    ensures handles { (n : ℕ) → IsSingle n width (Instr.Asr width) dest → Handles result n }
    ensures known { dest ≡ Addressing.Register → result ≢ Handler.Other }
{
    match (width, dest) {
        (Width::Word, Register) => Handler::AsrR,
        (Width::Word, Absolute) => Handler::AsrA,
        (Width::Byte, Register) => Handler::AsrbR,
        _ => Handler::Other,
    }
}

pub(crate) fn asl(width: Width, dest: Addressing) -> Handler
    ensures handles { (n : ℕ) → IsSingle n width (Instr.Asl width) dest → Handles result n }
    ensures known { dest ≡ Addressing.Register → result ≢ Handler.Other }
{
    match (width, dest) {
        (Width::Word, Register) => Handler::AslR,
        (Width::Word, Absolute) => Handler::AslA,
        (Width::Byte, Register) => Handler::AslbR,
        _ => Handler::Other,
    }
}

pub(crate) fn swab(dest: Addressing) -> Handler
    ensures handles { (n : ℕ) → IsSingle n Width.Word Instr.Swab dest → Handles result n }
    ensures known { dest ≡ Addressing.Register → result ≢ Handler.Other }
{
    match dest {
        Register => Handler::SwabR,
        _ => Handler::Other,
    }
}

pub(crate) fn sxt(dest: Addressing) -> Handler
    ensures handles { (n : ℕ) → IsSingle n Width.Word Instr.Sxt dest → Handles result n }
    ensures known { dest ≡ Addressing.Register → result ≢ Handler.Other }
{
    match dest {
        Register => Handler::SxtR,
        _ => Handler::Other,
    }
}

pub(crate) fn xor(n: Reg, dest: Addressing) -> Handler
    ensures handles { (word : ℕ) → IsExtended word Instr.Xor dest → n ≡ reg_of (word / 0o100 % 0o10) → Handles result word }
    ensures known { n ≢ Reg.Pc → dest ≡ Addressing.Register → result ≢ Handler.Other }
{
    match dest {
        Register => {
            if is_pc(n) {
                Handler::Other
            } else {
                Handler::XorRR
            }
        }
        _ => Handler::Other,
    }
}

pub(crate) fn mul(operand: Addressing) -> Handler
    ensures handles { (n : ℕ) → IsExtended n Instr.Mul operand → Handles result n }
    ensures known { operand ≡ Addressing.Register → result ≢ Handler.Other }
{
    match operand {
        Register => Handler::MulR,
        Immediate => Handler::MulI,
        Indexed => Handler::MulX,
        _ => Handler::Other,
    }
}

pub(crate) fn div(operand: Addressing) -> Handler
    ensures handles { (n : ℕ) → IsExtended n Instr.Div operand → Handles result n }
    ensures known { operand ≡ Addressing.Register → result ≢ Handler.Other }
{
    match operand {
        Register => Handler::DivR,
        Immediate => Handler::DivI,
        Indexed => Handler::DivX,
        _ => Handler::Other,
    }
}

pub(crate) fn ash(operand: Addressing) -> Handler
    ensures handles { (n : ℕ) → IsExtended n Instr.Ash operand → Handles result n }
    ensures known { operand ≡ Addressing.Register → result ≢ Handler.Other }
{
    match operand {
        Register => Handler::AshR,
        Immediate => Handler::AshI,
        Indexed => Handler::AshX,
        _ => Handler::Other,
    }
}

pub(crate) fn ashc(operand: Addressing) -> Handler
    ensures handles { (n : ℕ) → IsExtended n Instr.Ashc operand → Handles result n }
    ensures known { operand ≡ Addressing.Register → result ≢ Handler.Other }
{
    match operand {
        Register => Handler::AshcR,
        Immediate => Handler::AshcI,
        Indexed => Handler::AshcX,
        _ => Handler::Other,
    }
}

pub(crate) fn jsr(operand: Addressing) -> Handler
    ensures handles { (n : ℕ) → IsExtended n Instr.Jsr operand → Handles result n }
    ensures known { IsLabel operand → result ≢ Handler.Other }
{
    match operand {
        Absolute => Handler::JsrA,
        Relative => Handler::JsrL,
        _ => Handler::Other,
    }
}

pub(crate) fn jmp(dest: Addressing) -> Handler
    ensures handles { (n : ℕ) → IsSingle n Width.Word Instr.Jmp dest → Handles result n }
    ensures known { IsLabel dest → result ≢ Handler.Other }
{
    match dest {
        Absolute => Handler::JmpA,
        Relative => Handler::JmpL,
        Deferred => Handler::JmpD,
        _ => Handler::Other,
    }
}

pub(crate) fn branch(condition: Condition) -> Handler
    ensures handles { (n : ℕ) → IsBranch n condition → Handles result n }
    ensures known { result ≢ Handler.Other }
{
    match condition {
        Condition::Always => Handler::Always,
        Condition::NotEqual => Handler::NotEqual,
        Condition::Equal => Handler::Equal,
        Condition::GreaterOrEqual => Handler::GreaterOrEqual,
        Condition::Less => Handler::Less,
        Condition::Greater => Handler::Greater,
        Condition::LessOrEqual => Handler::LessOrEqual,
        Condition::Plus => Handler::Plus,
        Condition::Minus => Handler::Minus,
        Condition::Higher => Handler::Higher,
        Condition::LowerOrSame => Handler::LowerOrSame,
        Condition::OverflowClear => Handler::OverflowClear,
        Condition::OverflowSet => Handler::OverflowSet,
        Condition::CarryClear => Handler::CarryClear,
        Condition::CarrySet => Handler::CarrySet,
    }
}

pub(crate) fn codes(set: bool) -> Handler
    ensures handles { (n : ℕ) → decode_of n ≡ Instr.Codes set (flags_of n) → Handles result n }
    ensures known { result ≢ Handler.Other }
{
    if set {
        Handler::SetCodes
    } else {
        Handler::ClearCodes
    }
}
