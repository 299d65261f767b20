//! The table of processes: who a process is, and who its parent. `proc.h` in Lions' Commentary has besides what decides
//! when a process runs and where its image is, which is kept elsewhere here.
#![tactic(auto)]

mod child;
mod member;
mod row;
mod rows;
mod search;

pub use child::Child;
pub use member::Member;
pub use row::Row;
pub use rows::Rows;
