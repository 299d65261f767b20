//! Who runs next: sleeping and waking, priorities, ageing and the choice.
#![tactic(auto)]

mod ageing;
mod choice;
mod ranges;
mod row;
mod sleepers;
mod table;

pub use crate::ranges::{LAST_BLOCK, LAST_LINE, LAST_SIGNAL, LAST_SLOT, LAST_TEXT};
pub use crate::row::{Mode, Second, Stat, TableRow};
pub use crate::table::{EMPTY_ROW, Table};
