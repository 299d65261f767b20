//! The ways to an operand that a handler tells apart.
ghost use Rattle.std.specs.Prelude.{◌≡◌, ◌≢◌, IsTrue, false};
ghost use Rattle.pdp_decode.specs.declared.instr.Reg.{Reg};
ghost use Rattle.pdp_decode.specs.declared.addressing.Addressing.{Addressing};
ghost use Rattle.pdp_decode.specs.Handlers.{IsAddressed, IsStepped, IsSource, IsFromSource, IsLabel, IsAtLabel};

use crate::instr::{Mode, Operand, Reg, Width};

/// How an operand is found, as the handbook names it in section 3.2 to 3.5. A register is another than PC, but for the modes
/// of PC.
#[derive(Clone, Copy, Debug, PartialEq, Eq)]
pub enum Addressing {
    /// `R`.
    Register,
    /// `#n`: the next word of the program.
    Immediate,
    /// `@#a`: at the address that the next word of the program holds.
    Absolute,
    /// `X(R)`.
    Indexed,
    /// `(R)`.
    Deferred,
    /// `(R)+`, where the register grows by the operand's size.
    Autoincrement,
    /// `-(R)`, likewise.
    Autodecrement,
    /// `A`: at PC plus the next word of the program.
    Relative,
    /// Any way, these among them.
    Other,
}

pub(crate) fn is_pc(n: Reg) -> bool
    ensures is { IsTrue result → n ≡ Reg.Pc }
    ensures not { result ≡ false → n ≢ Reg.Pc }
{
    match n {
        Reg::Pc => true,
        _ => false,
    }
}

// Whether a register steps by the operand's size.
fn steps(width: Width, n: Reg) -> bool
    ensures { IsTrue result → IsStepped width n }
{
    match width {
        Width::Word => !is_pc(n),
        Width::Byte => match n {
            Reg::Sp | Reg::Pc => false,
            _ => true,
        },
    }
}

/// How an operand is found.
pub(crate) fn addressed(width: Width, o: Operand) -> Addressing
    ensures is { IsAddressed result width o }
    ensures register { IsAddressed Addressing.Register width o → result ≡ Addressing.Register }
    ensures source { IsFromSource width o → IsSource result width }
    ensures label { IsAtLabel o → IsLabel result }
{
    if is_pc(o.reg) {
        return match o.mode {
            Mode::Increment => Addressing::Immediate,
            Mode::IncrementDeferred => Addressing::Absolute,
            Mode::Index => Addressing::Relative,
            _ => Addressing::Other,
        };
    }
    match o.mode {
        Mode::Register => Addressing::Register,
        Mode::Deferred => Addressing::Deferred,
        Mode::Increment if steps(width, o.reg) => Addressing::Autoincrement,
        Mode::Decrement if steps(width, o.reg) => Addressing::Autodecrement,
        Mode::Index => Addressing::Indexed,
        _ => Addressing::Other,
    }
}
