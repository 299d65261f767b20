//! The instruction words of the PDP-11/40's integer instructions, as they run in user mode: a word to an instruction.
//!
//! PDP-11/40 Processor Handbook, chapter 3 (addressing modes) and chapter 4 (instruction set).
#![tactic(auto)]

mod addressing;
mod choices;
mod dispatch;
mod handler;
mod instr;
mod reading;

pub use dispatch::Dispatch;
pub use handler::Handler;
pub use instr::{Condition, Flags, Instr, Mode, Operand, Reg, SoftTrap, Width};
pub use reading::decode;
