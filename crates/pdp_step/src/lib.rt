//! One user-mode instruction of the PDP-11/40 over any memory.
//!
//! PDP-11/40 Processor Handbook, chapters 3 and 4.
#![tactic(auto)]

mod addressing_mode;
mod alteration;
mod any;
mod arithmetic;
mod extended;
mod halt;
mod handlers;
mod in_memory;
mod in_register;
mod operand_rows;
mod operation;
mod outcome;
mod pair;
mod pair_rows;
mod processor;
mod regs;
mod size;
mod stepping;
mod table;
mod transfers;

pub use halt::{Halt, Refusal};
pub use handlers::{
    perform, perform_apart, perform_between, perform_bytes, perform_extended, perform_stepping,
};
pub use outcome::{Kind, Outcome};
pub use processor::Processor;
pub use regs::Regs;
pub use stepping::step;
