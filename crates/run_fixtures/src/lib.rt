//! What the rows of whole runs share: bytes of disks, hosts in memory, the one call of `v6`, and a row with the question
//! whether it holds. It is for tests alone.
#![tactic(auto)]

mod disks;
mod hosts;
mod one_byte;
mod rows;

pub use disks::{HI_BYTES, Piece, TEXT, have, hi_image, is_front, put};
pub use hosts::{ROOMS, RUN, Rooms, end_over, host_in, host_with};
pub use one_byte::OneByte;
pub use rows::{Row, holds};
