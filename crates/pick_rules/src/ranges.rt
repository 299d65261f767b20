//! The greatest numbers that a line of the log may have, and the least where it isn't 0 or 1: docs/manual/log.md.
use v6_base::Slot;

/// The last slot of the table of processes.
pub const LAST_SLOT: Slot = 49;

/// The last of the texts.
pub const LAST_TEXT: u8 = 39;

/// The last block of the swap area, and of the disk.
pub const LAST_BLOCK: u16 = 4871;

/// The last of the signals: signal(II).
pub const LAST_SIGNAL: u8 = 19;

/// The last of the lines of terminals: the console is line 0.
pub const LAST_LINE: u8 = 7;
