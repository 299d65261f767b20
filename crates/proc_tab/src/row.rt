//! A row of the table of processes: `proc.h` in Lions' Commentary.
use v6_base::Pid;

/// What the kernel knows of a process wherever its image is: `proc.h` in Lions' Commentary.
#[derive(Clone, Copy, Debug, PartialEq, Eq)]
pub struct Row {
    /// The number of the process, which fork(II) tells its parent.
    pub pid: Pid,
    /// The number of its parent.
    pub ppid: Pid,
    /// The effective user, as in its per-process area: kill(II) asks for it.
    pub uid: u8,
    /// The signal that it was sent and that waits for it, from 1 to 19, or 0: signal(II).
    pub sig: u8,
    /// The line of its terminal plus 1, or 0 where it has none. The console is line 0.
    pub tty: u8,
}
