//! How a run ends.
use v6_base::PanicKind;

/// How a run ends.
#[derive(Clone, Copy, Debug, PartialEq, Eq)]
pub enum Ends {
    /// With its last event: nothing ends it before.
    AtEnd,
    /// With a panic: a demand for a place in the swap area, or for a text, can't be met.
    Panic(PanicKind),
}
