//! The lines of several terminals: each is a line by itself.
#![tactic(auto)]

mod apart;
mod lines;
mod on_line;
mod told;

pub use crate::apart::lines_are_apart;
pub use crate::lines::Lines;
pub use crate::told::{keys_of, show_of, tell_flushed};
