//! What wait(II) asks for.
use v6_base::Slot;

/// What is known of the children of a process: wait(II).
#[derive(Clone, Copy, Debug, PartialEq, Eq)]
pub enum Child {
    /// It has none.
    NoChild,
    /// It has children, and none of them has ended.
    Living,
    /// Of those that have ended this is the slot of the lowest one.
    Dead(Slot),
}
