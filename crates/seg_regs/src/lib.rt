//! Which sizes a program's parts may have. The registers of memory management describe them: `estabur` in Lions'
//! Commentary, `main.c`, and chapter 6 of the PDP-11/40 Processor Handbook.
#![tactic(auto)]

mod proto;

pub use proto::{Proto, Spot, TooBig};
