//! The images of processes, with their u areas: what `proc.h` calls the swappable part of a process, and where in core or
//! in the swap area it stands. Lions' Commentary, `proc.h`, `user.h`, `text.h`, `malloc.c`, `slp.c` and `text.c`.
//!
//! An image is a u area of sixteen clicks, then data, then a stack. A click is 64 bytes, a block of the swap area 512.
#![tactic(auto)]

mod access;
mod attempt;
mod bytes;
mod deposit;
mod executing;
mod fields;
mod finding;
mod fork;
mod growth;
mod images;
mod loan;
mod making;
mod memory;
mod near;
mod parts;
mod rooms;
mod row;
mod running;
mod runs;
mod standing;
mod starts;
mod state;
mod swapping;
mod texts;

pub use images::{Images, NoSwap};
pub use loan::SpaceOf;
pub use memory::SWAP_BYTES;
pub use running::Fixed;
pub use swapping::NoCore;
pub use texts::TextRefusal;
