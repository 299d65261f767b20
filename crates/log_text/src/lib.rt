//! The lines of the log, as text: what the kernel writes of each entry, and what an entry's line is read back as.
#![tactic(auto)]

mod entries;
mod numbers;
mod ranges;
mod reading;
mod words;
mod writing;

pub use crate::reading::parse;
pub use crate::writing::{Line, Text, line, put_line};
