//! Whether the numbers of a line are those that a line of the log may have.
ghost use Rattle.std.specs.Prelude.{◌↔◌, IsTrue};
ghost use Rattle.pick_rules.specs.Ranges.{IsSlot, IsText, IsBlock, IsSignal, IsInode, IsLine, IsChannel, IsPlace, IsInRange};

use pick_rules::{LAST_BLOCK, LAST_LINE, LAST_SIGNAL, LAST_SLOT, LAST_TEXT};
use v6_base::{Chan, Entry, Place, SWAP_START, Slot};

fn is_slot(slot: Slot) -> bool
    ensures { IsTrue result ↔ IsSlot slot }
{
    slot <= LAST_SLOT
}

fn is_text(text: u8) -> bool
    ensures { IsTrue result ↔ IsText text }
{
    text <= LAST_TEXT
}

fn is_block(block: u16) -> bool
    ensures { IsTrue result ↔ IsBlock block }
{
    (SWAP_START..=LAST_BLOCK).contains(&block)
}

fn is_signal(sig: u8) -> bool
    ensures { IsTrue result ↔ IsSignal sig }
{
    (1..=LAST_SIGNAL).contains(&sig)
}

fn is_inode(inode: u16) -> bool
    ensures { IsTrue result ↔ IsInode inode }
{
    inode != 0
}

fn is_line(line: u8) -> bool
    ensures { IsTrue result ↔ IsLine line }
{
    (1..=LAST_LINE).contains(&line)
}

fn is_channel(chan: Chan) -> bool
    ensures { IsTrue result ↔ IsChannel chan }
{
    match chan {
        Chan::RunIn | Chan::RunOut | Chan::Tout | Chan::Keys | Chan::Show => true,
        Chan::Wait(slot) | Chan::Disk(slot) => is_slot(slot),
        Chan::Read(inode) | Chan::Write(inode) => is_inode(inode),
        Chan::KeysOf(line) | Chan::ShowOf(line) => is_line(line),
    }
}

fn is_place(place: Place) -> bool
    ensures { IsTrue result ↔ IsPlace place }
{
    match place {
        Place::Core(_) => true,
        Place::Swap(block) => is_block(block),
    }
}

/// Whether each number of an entry is in its range.
pub(crate) fn is_in_range(entry: Entry) -> bool
    ensures { IsTrue result ↔ IsInRange entry }
{
    match entry {
        Entry::Boot { .. } | Entry::Time(_) => true,
        Entry::Idle | Entry::TickUser | Entry::TickKernel | Entry::TickIdle => true,
        Entry::Panic(_) | Entry::End => true,
        Entry::Go(slot) | Entry::Trap(slot) => is_slot(slot),
        Entry::Bare(slot) | Entry::Reap(slot) => is_slot(slot),
        Entry::Sleep { slot, chan, .. } => is_slot(slot) && is_channel(chan),
        Entry::Wake(chan) => is_channel(chan),
        Entry::Signal { slot, sig } => is_slot(slot) && is_signal(sig),
        Entry::Nice { slot, .. } => is_slot(slot),
        Entry::Size { slot, place, .. } => is_slot(slot) && is_place(place),
        Entry::SizeKeep { slot, .. } => is_slot(slot),
        Entry::Fork { slot, child, place } => is_slot(slot) && is_slot(child) && is_place(place),
        Entry::Leave { slot, text, .. } => is_slot(slot) && is_text(text),
        Entry::Text {
            slot,
            text,
            block,
            ..
        } => is_slot(slot) && is_text(text) && is_block(block),
        Entry::Share { slot, text } => is_slot(slot) && is_text(text),
        Entry::Image { slot, place, .. } => is_slot(slot) && is_place(place),
        Entry::SwapIn { slot, .. } => is_slot(slot),
        Entry::SwapOut { slot, block } => is_slot(slot) && is_block(block),
        Entry::Exit { slot, block } => is_slot(slot) && is_block(block),
    }
}
