//! The pass of process 0, which moves images between core and the swap area: `sched` in Lions' Commentary, `slp.c`.
#![tactic(auto)]

mod candidates;
mod moves;
mod rows;
mod sched;

pub use sched::pass;
