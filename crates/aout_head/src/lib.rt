//! The header of a program's file, by which exec(II) knows what to read and where it goes: a.out(V) of the UNIX
//! Programmer's Manual.
#![tactic(auto)]

mod header;
mod parts;

pub use header::plan;
pub use parts::{ExecFault, Plan};
