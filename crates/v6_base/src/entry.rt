//! The lines of the log, and what their numbers are.

/// The number of a slot of the table of processes, from 0 to 49. Slot 0 is the kernel's own, which swaps.
pub type Slot = u8;

/// The number of a process, from 1 to 32767; 0 is the kernel's own.
pub type Pid = u16;

/// What a sleeper waits for: Lions' Commentary, `sleep` and `wakeup`.
#[derive(Clone, Copy, Debug, PartialEq, Eq)]
pub enum Chan {
    /// That a process may go out of core, or that time passes: the swapper, with processes that wait to come in.
    RunIn,
    /// That a process wants to come in: the swapper, with none that waits.
    RunOut,
    /// The next time at which a sleep ends: sleep(II).
    Tout,
    /// Bytes typed at the console.
    Keys,
    /// Room in what waits to go out on the console.
    Show,
    /// The end of a child of the process in this slot: wait(II).
    Wait(Slot),
    /// Bytes in the pipe of this inode.
    Read(u16),
    /// Room in the pipe of this inode.
    Write(u16),
    /// The end of a transfer from the disk, by the process in this slot.
    Disk(Slot),
    /// Bytes typed at this terminal line, from 1 to 7.
    KeysOf(u8),
    /// Room in what waits to go out on this terminal line, from 1 to 7.
    ShowOf(u8),
}

/// Why the system stops: Lions' Commentary, `panic`.
#[derive(Clone, Copy, Debug, PartialEq, Eq)]
pub enum PanicKind {
    /// There is no room in the swap area for an image or a text.
    Swap,
    /// There is no block in the swap area for what is kept of a process that has exited.
    Zombie,
    /// All 40 texts are in use.
    Text,
}

/// The block with which the swap area begins on the disk that has the root. The file system there ends before it.
pub const SWAP_START: u16 = 4000;

/// Where an image stands.
#[derive(Clone, Copy, Debug, PartialEq, Eq)]
pub enum Place {
    /// At this click of core, of 64 bytes.
    Core(u16),
    /// At this block of the disk, from 4000 to 4871.
    Swap(u16),
}

/// A line of the log: one effect on the table of processes, or one choice. Sizes are clicks of 64 bytes, texts are
/// numbered from 0 to 39, and times are seconds.
#[derive(Clone, Copy, Debug, PartialEq, Eq)]
pub enum Entry {
    /// The system begins, with this many clicks of core.
    Boot {
        core: u16,
        time: u32,
    },
    /// The process in this slot is chosen to run.
    Go(Slot),
    /// No process can be chosen.
    Idle,
    /// The turn of the process in this slot ends, and its priority is set anew.
    Trap(Slot),
    /// A tick of the clock while a program runs.
    TickUser,
    /// A tick of the clock while the kernel runs.
    TickKernel,
    /// A tick of the clock while nobody runs.
    TickIdle,
    /// The process in this slot sleeps at a priority.
    Sleep {
        slot: Slot,
        pri: i8,
        chan: Chan,
    },
    /// All who sleep on the channel become ready.
    Wake(Chan),
    /// The process in this slot is sent a signal, from 1 to 19.
    Signal {
        slot: Slot,
        sig: u8,
    },
    /// The process in this slot sets what is added to its priority: nice(II).
    Nice {
        slot: Slot,
        nice: i8,
    },
    /// The time is set: stime(II).
    Time(u32),
    /// The image of the process in this slot grows to this many clicks, and takes a new place.
    Size {
        slot: Slot,
        clicks: u16,
        place: Place,
    },
    /// The image of the process in this slot takes a size that is not larger, and keeps its place.
    SizeKeep {
        slot: Slot,
        clicks: u16,
    },
    /// The process in one slot makes a child in another, whose image stands at a place: fork(II).
    Fork {
        slot: Slot,
        child: Slot,
        place: Place,
    },
    /// The process in this slot leaves its text, which stays for the next user if it is sticky.
    Leave {
        slot: Slot,
        text: u8,
        sticky: bool,
    },
    /// The process in this slot gives back its image, to take the one of a new program: exec(II).
    Bare(Slot),
    /// The process in this slot makes a new text of this many clicks, whose copy begins at a block of the swap area.
    Text {
        slot: Slot,
        text: u8,
        clicks: u16,
        block: u16,
    },
    /// The process in this slot takes a text that others use or have used.
    Share {
        slot: Slot,
        text: u8,
    },
    /// The process in this slot takes the image of a new program, of this many clicks.
    Image {
        slot: Slot,
        clicks: u16,
        place: Place,
    },
    /// The image of the process in this slot comes into core, from this click on, its text first where that isn't there.
    SwapIn {
        slot: Slot,
        at: u16,
    },
    /// The image of the process in this slot goes out, to this block of the swap area.
    SwapOut {
        slot: Slot,
        block: u16,
    },
    /// The process in this slot has ended, and leaves a block of the swap area for its parent: exit(II).
    Exit {
        slot: Slot,
        block: u16,
    },
    /// The parent has waited for the process in this slot, which is gone: wait(II).
    Reap(Slot),
    /// The system stops. It is a log's last line.
    Panic(PanicKind),
    /// The script has ended. It is a log's last line.
    End,
}
