//! How a turn of a process ended.
use v6_base::{Chan, PanicKind};

/// How a turn of a process ended.
#[derive(Clone, Copy, Debug, PartialEq, Eq)]
pub enum Ending {
    /// An instruction is done.
    Next,
    /// A call is done, and the process goes on.
    Trapped,
    /// The process sleeps in a call, at this priority, for this channel.
    Slept { pri: i8, chan: Chan },
    /// The process has exited.
    Ended,
    /// A demand for a place can't be met.
    Panic(PanicKind),
}
