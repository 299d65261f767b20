//! What the words of a line say.
ghost use Rattle.std.specs.Prelude.{◌≡◌};
ghost use Rattle.log_text.specs.inside.Reading as read;
ghost use Rattle.log_text.specs.inside.Reading.{words_of, channel_of, entry_of};

use crate::numbers::{read_i8, read_u8, read_u16, read_u32};
use crate::words::{is, word};
use v6_base::{Chan, Entry, PanicKind, Place, Slot};

fn channel(name: &[u8]) -> Option<Chan>
    ensures { result ≡ channel_of name.now }
{
    if is(name, b"runin") {
        Some(Chan::RunIn)
    } else if is(name, b"runout") {
        Some(Chan::RunOut)
    } else if is(name, b"tout") {
        Some(Chan::Tout)
    } else if is(name, b"keys") {
        Some(Chan::Keys)
    } else if is(name, b"show") {
        Some(Chan::Show)
    } else if let Some(slot) = name.strip_prefix(b"wait.") {
        Some(Chan::Wait(read_u8(slot)?))
    } else if let Some(inode) = name.strip_prefix(b"read.") {
        Some(Chan::Read(read_u16(inode)?))
    } else if let Some(inode) = name.strip_prefix(b"write.") {
        Some(Chan::Write(read_u16(inode)?))
    } else if let Some(slot) = name.strip_prefix(b"disk.") {
        Some(Chan::Disk(read_u8(slot)?))
    } else if let Some(line) = name.strip_prefix(b"keys.") {
        Some(Chan::KeysOf(read_u8(line)?))
    } else if let Some(line) = name.strip_prefix(b"show.") {
        Some(Chan::ShowOf(read_u8(line)?))
    } else {
        None
    }
}

fn slot(line: &[u8]) -> Option<Slot>
    ensures { result ≡ read.slot_of (words_of line.now) }
{
    read_u8(word(line, 1))
}

fn place(line: &[u8]) -> Option<Place>
    ensures { result ≡ read.place_of (words_of line.now) }
{
    let kind = word(line, 3);
    if is(kind, b"at") {
        Some(Place::Core(read_u16(word(line, 4))?))
    } else if is(kind, b"swap") {
        Some(Place::Swap(read_u16(word(line, 4))?))
    } else {
        None
    }
}

fn boot(line: &[u8]) -> Option<Entry>
    ensures { result ≡ read.boot_of (words_of line.now) }
{
    Some(Entry::Boot {
        core: read_u16(word(line, 1))?,
        time: read_u32(word(line, 2))?,
    })
}

fn tick(mode: &[u8]) -> Option<Entry>
    ensures { result ≡ read.tick_of mode.now }
{
    if is(mode, b"u") {
        Some(Entry::TickUser)
    } else if is(mode, b"k") {
        Some(Entry::TickKernel)
    } else if is(mode, b"i") {
        Some(Entry::TickIdle)
    } else {
        None
    }
}

fn panic(cause: &[u8]) -> Option<Entry>
    ensures { result ≡ read.panic_of cause.now }
{
    if is(cause, b"swap") {
        Some(Entry::Panic(PanicKind::Swap))
    } else if is(cause, b"zombie") {
        Some(Entry::Panic(PanicKind::Zombie))
    } else if is(cause, b"text") {
        Some(Entry::Panic(PanicKind::Text))
    } else {
        None
    }
}

fn sleep(line: &[u8]) -> Option<Entry>
    ensures { result ≡ read.sleep_of (words_of line.now) }
{
    Some(Entry::Sleep {
        slot: slot(line)?,
        pri: read_i8(word(line, 2))?,
        chan: channel(word(line, 3))?,
    })
}

fn signal(line: &[u8]) -> Option<Entry>
    ensures { result ≡ read.signal_of (words_of line.now) }
{
    Some(Entry::Signal {
        slot: slot(line)?,
        sig: read_u8(word(line, 2))?,
    })
}

fn nice(line: &[u8]) -> Option<Entry>
    ensures { result ≡ read.nice_of (words_of line.now) }
{
    Some(Entry::Nice {
        slot: slot(line)?,
        nice: read_i8(word(line, 2))?,
    })
}

fn size(line: &[u8]) -> Option<Entry>
    ensures { result ≡ read.size_of (words_of line.now) }
{
    if is(word(line, 3), b"keep") {
        return Some(Entry::SizeKeep {
            slot: slot(line)?,
            clicks: read_u16(word(line, 2))?,
        });
    }
    Some(Entry::Size {
        slot: slot(line)?,
        clicks: read_u16(word(line, 2))?,
        place: place(line)?,
    })
}

fn fork(line: &[u8]) -> Option<Entry>
    ensures { result ≡ read.fork_of (words_of line.now) }
{
    Some(Entry::Fork {
        slot: slot(line)?,
        child: read_u8(word(line, 2))?,
        place: place(line)?,
    })
}

fn leave(line: &[u8]) -> Option<Entry>
    ensures { result ≡ read.leave_of (words_of line.now) }
{
    Some(Entry::Leave {
        slot: slot(line)?,
        text: read_u8(word(line, 2))?,
        sticky: is(word(line, 3), b"sticky"),
    })
}

fn text(line: &[u8]) -> Option<Entry>
    ensures { result ≡ read.text_of (words_of line.now) }
{
    Some(Entry::Text {
        slot: slot(line)?,
        text: read_u8(word(line, 2))?,
        clicks: read_u16(word(line, 3))?,
        block: read_u16(word(line, 5))?,
    })
}

fn share(line: &[u8]) -> Option<Entry>
    ensures { result ≡ read.share_of (words_of line.now) }
{
    Some(Entry::Share {
        slot: slot(line)?,
        text: read_u8(word(line, 2))?,
    })
}

fn image(line: &[u8]) -> Option<Entry>
    ensures { result ≡ read.image_of (words_of line.now) }
{
    Some(Entry::Image {
        slot: slot(line)?,
        clicks: read_u16(word(line, 2))?,
        place: place(line)?,
    })
}

fn swap_in(line: &[u8]) -> Option<Entry>
    ensures { result ≡ read.in_of (words_of line.now) }
{
    Some(Entry::SwapIn {
        slot: slot(line)?,
        at: read_u16(word(line, 2))?,
    })
}

fn swap_out(line: &[u8]) -> Option<Entry>
    ensures { result ≡ read.out_of (words_of line.now) }
{
    Some(Entry::SwapOut {
        slot: slot(line)?,
        block: read_u16(word(line, 2))?,
    })
}

fn exit(line: &[u8]) -> Option<Entry>
    ensures { result ≡ read.exit_of (words_of line.now) }
{
    Some(Entry::Exit {
        slot: slot(line)?,
        block: read_u16(word(line, 3))?,
    })
}

/// The entry of a line whose first word speaks of an image or a text.
fn image_entry(kind: &[u8], line: &[u8]) -> Option<Entry>
    ensures { result ≡ read.image_entry kind.now (words_of line.now) }
{
    if is(kind, b"drop") {
        leave(line)
    } else if is(kind, b"bare") {
        Some(Entry::Bare(slot(line)?))
    } else if is(kind, b"text") {
        text(line)
    } else if is(kind, b"share") {
        share(line)
    } else if is(kind, b"image") {
        image(line)
    } else if is(kind, b"in") {
        swap_in(line)
    } else if is(kind, b"out") {
        swap_out(line)
    } else {
        None
    }
}

/// The entry of a line whose first word speaks of a process, or what `image_entry` finds.
fn process_entry(kind: &[u8], line: &[u8]) -> Option<Entry>
    ensures { result ≡ read.process_entry kind.now (words_of line.now) }
{
    if is(kind, b"sleep") {
        sleep(line)
    } else if is(kind, b"wake") {
        Some(Entry::Wake(channel(word(line, 1))?))
    } else if is(kind, b"signal") {
        signal(line)
    } else if is(kind, b"nice") {
        nice(line)
    } else if is(kind, b"size") {
        size(line)
    } else if is(kind, b"fork") {
        fork(line)
    } else if is(kind, b"exit") {
        exit(line)
    } else if is(kind, b"reap") {
        Some(Entry::Reap(slot(line)?))
    } else {
        image_entry(kind, line)
    }
}

/// The entry of a line whose first word speaks of the system and its choices, or what `process_entry` finds.
fn system_entry(kind: &[u8], line: &[u8]) -> Option<Entry>
    ensures { result ≡ read.system_entry kind.now (words_of line.now) }
{
    if is(kind, b"boot") {
        boot(line)
    } else if is(kind, b"go") {
        Some(Entry::Go(slot(line)?))
    } else if is(kind, b"idle") {
        Some(Entry::Idle)
    } else if is(kind, b"trap") {
        Some(Entry::Trap(slot(line)?))
    } else if is(kind, b"tick") {
        tick(word(line, 1))
    } else if is(kind, b"time") {
        Some(Entry::Time(read_u32(word(line, 1))?))
    } else if is(kind, b"panic") {
        panic(word(line, 1))
    } else if is(kind, b"end") {
        Some(Entry::End)
    } else {
        process_entry(kind, line)
    }
}

/// The entry that the words of a line name. Other bytes may name it too, as where a number has leading zeros, and its
/// numbers may be outside their ranges.
pub(crate) fn entry(line: &[u8]) -> Option<Entry>
    ensures { result ≡ read.entry_of (words_of line.now) }
{
    system_entry(word(line, 0), line)
}
