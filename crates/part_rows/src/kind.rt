//! What a slot has.

/// What a slot has.
#[derive(Clone, Copy, PartialEq, Eq)]
pub enum Kind {
    Nothing,
    Image,
    Grave,
}
