//! Scripts: what comes to a machine from outside, as text.
#![tactic(auto)]

mod command;
mod lines;
mod number;
mod script;

pub use crate::number::number_of;
pub use crate::script::{Event, MAX_BYTES, Script, ScriptFault, read};
