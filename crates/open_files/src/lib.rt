//! The table of open files, and the numbers by which a process has them.
#![tactic(auto)]

mod file;
mod places;
mod table;

pub use crate::file::{Closed, FileKind, OpenFile};
pub use crate::table::OpenTable;
