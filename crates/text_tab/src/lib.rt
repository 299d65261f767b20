//! The table of shared texts: which programs' texts there are, how many processes use each, and where each is. `text.h`
//! and `text.c` in Lions' Commentary.
#![tactic(auto)]

mod left;
mod row;
mod texts;

pub use left::{Full, Left};
pub use row::TextRow;
pub use texts::Texts;

/// The number of an entry in the table of texts, below 40.
pub type TextId = u8;
