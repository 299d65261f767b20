//! The rows of the table of processes, and what the clock tells.
use v6_base::{Chan, Place};

/// What the process in a slot does: `p_stat` of `proc.h` in Lions' Commentary.
#[derive(Clone, Copy, Debug, PartialEq, Eq)]
pub enum Stat {
    /// There is no process.
    Empty,
    /// It sleeps, and no signal wakes it: SSLEEP.
    Sleeping,
    /// It sleeps, and a signal wakes it: SWAIT.
    Waiting,
    /// It can run: SRUN.
    Ready,
    /// It has exited, and its parent has not waited for it yet: SZOMB.
    Zombie,
}

/// What is known of a slot for the choice: `proc.h` in Lions' Commentary.
#[derive(Clone, Copy, Debug, PartialEq, Eq)]
pub struct TableRow {
    pub stat: Stat,
    /// Its priority. A smaller one goes first.
    pub pri: i8,
    /// How much of the processor it has had of late, in ticks.
    pub cpu: u8,
    /// For how many seconds it has been where it is, in core or out of it.
    pub time: u8,
    /// What it adds to its priority: nice(II).
    pub nice: i8,
    /// The size of its image, in clicks of 64 bytes.
    pub size: u16,
    /// The text that it shares, from 0 to 39.
    pub text: Option<u8>,
    /// Where its image stands.
    pub place: Option<Place>,
    /// What it sleeps for.
    pub channel: Option<Chan>,
    /// Whether it has slept in a call that it hasn't left yet.
    pub calling: bool,
}

/// Where a tick comes.
#[derive(Clone, Copy, Debug, PartialEq, Eq)]
pub enum Mode {
    /// In a process that executes its instructions.
    User,
    /// In a call of a process, or in the swapper.
    Kernel,
    /// Nobody runs.
    Idle,
}

/// Whether a tick ends a second.
#[derive(Clone, Copy, Debug, PartialEq, Eq)]
pub enum Second {
    No,
    /// It does. `tout` says whether the time is that at which the first who sleeps for a time is to be woken.
    Yes { tout: bool },
}
