//! A script's events, which a kernel takes one after another: slots, with the ticks of the clock that the script sets, and what
//! comes from outside.
#![tactic(auto)]

mod clock;
mod slots;

pub use slots::{TellsCut, show_run};
