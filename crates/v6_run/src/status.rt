//! How a command ends.
ghost use Rattle.std.specs.Prelude.{◌≡◌};
ghost use Rattle.v6_run.specs.Status.{status_number};

use fs_check::ImageFault;
use script_text::ScriptFault;
use unix_core::SecondFault;
use v6_base::PanicKind;
use v6_port::{InPort, OutPort};

/// How a command ended.
#[derive(Clone, Copy, Debug, PartialEq, Eq)]
pub enum Status {
    /// The command was done to its end.
    Done,
    /// The words are no command's.
    Usage,
    /// A file could not be opened or read.
    ReadFault(InPort),
    /// A file could not be opened, written or finished.
    WriteFault(OutPort),
    /// The size of core is not 64 to 3968 clicks.
    CoreSize,
    /// The script has this first fault. Want of memory is [`Status::NoMemory`].
    ScriptFault(ScriptFault),
    /// The disk image has this first fault.
    ImageFault(ImageFault),
    /// The run came to a panic: a demand for a place in the swap area, or for a text, can't be met.
    Panic(PanicKind),
    /// The image of the second disk has this first fault, or both disks have too many inodes.
    SecondFault(SecondFault),
    /// There was no memory, before the first slot of a run, or before a demo reports, and before anything else is written.
    NoMemory,
    /// This line of the log, counted from 1, is the first at fault, and is a line of a log; or the log ends before it.
    Unlawful(u64),
    /// This line of the log, counted from 1, is the first at fault, and is no line of a log.
    BadLog(u64),
    /// The log has more than 2^40 bytes, of which the first 2^40 + 1 have no fault.
    LogTooLong,
}

impl Status {
    /// The exit status of a program that ends so.
    pub fn number(&self) -> u8
        ensures { result ≡ status_number self.now }
    {
        match self {
            Status::Done => 0,
            Status::Usage => 1,
            Status::ReadFault(_) => 2,
            Status::WriteFault(_) => 3,
            Status::CoreSize => 4,
            Status::ScriptFault(_) => 5,
            Status::ImageFault(_) => 6,
            Status::Panic(_) => 7,
            Status::NoMemory => 8,
            Status::Unlawful(_) => 9,
            Status::BadLog(_) => 10,
            Status::SecondFault(_) => 12,
            Status::LogTooLong => 13,
        }
    }
}
