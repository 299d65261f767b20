//! What a kernel has beside how far its run has come.

use crate::slots::Slots;
use sys_files::Files;
use sys_procs::Procs;
use v6_base::Tape;

/// The files with the terminal lines, the processes with their images and the table, and a tape for what a call on files shows.
#[derive(Drop)]
pub(crate) struct World {
    pub(crate) files: Files,
    pub(crate) procs: Procs,
    pub(crate) tape: Tape,
    /// The clicks of core.
    pub(crate) core: u16,
    /// The slots that have been taken, how long a transfer from the disk takes, and how often the lines send.
    pub(crate) slots: Slots,
}
