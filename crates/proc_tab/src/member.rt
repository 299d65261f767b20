//! Who is in a slot.
use crate::row::Row;

/// Who is in a slot: a process, and whether it has ended while its parent hasn't waited for it yet.
#[derive(Clone, Copy, Debug, PartialEq, Eq)]
pub struct Member {
    pub row: Row,
    pub is_dead: bool,
}
