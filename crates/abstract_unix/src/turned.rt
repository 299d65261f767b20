//! What a turn answers.
use v6_base::PanicKind;

/// What a turn came to.
#[derive(Clone, Copy, Debug, PartialEq, Eq)]
pub enum Turned {
    Ran,
    /// There is no process to run.
    Idle,
    /// The run ends here: a demand for a place can't be met.
    Panic(PanicKind),
}
