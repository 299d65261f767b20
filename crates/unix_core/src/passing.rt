//! What a call on files has shown on the kernel's tape goes on to the log and the terminals.
ghost use Rattle.std.specs.Prelude.{◌≡◌, ◌<◌, [], ◌∷◌};
ghost use Rattle.v6_base.specs.Trace.{Took, Log, sent};
ghost use Rattle.v6_base.specs.Tape.{bytes_of};
ghost use Rattle.pick_rules.specs.Table.{IsTable};
ghost use Rattle.unix_core.specs.Passing.{HasSlot, HaveSlots, woken_by, all_woken, bytes_shown, shown_by};

use pick_rules::Table;
use sys_procs::signal_slot;
use v6_base::{Entry, LINES, Tape, Trace};

/// Takes a line of the log that wakes sleepers, or that sends a signal.
#[inline(never)]
fn wake_by<T: Trace>(entry: Entry, table: &mut Table, trace: &mut T)
    requires table { IsTable table.old }
    requires slot { HasSlot entry }
    ensures table { table.new ≡ woken_by table.old entry }
    ensures good { IsTable table.new }
    ensures items { Took (T.taken trace.old) (Log entry ∷ []) (T.taken trace.new) }
    ensures frame { T.leads_to trace.old trace.new }
{
    match entry {
        Entry::Wake(chan) => table.wake(chan, trace),
        Entry::Signal { slot, .. } => {
            trace.entry(entry);
            signal_slot(table, slot);
        }
        _ => trace.entry(entry),
    }
}

/// Passes on the bytes of one line that a tape has taken.
fn show_bytes<T: Trace>(tape: &Tape, l: u8, trace: &mut T)
    requires { l < LINES }
    ensures items { Took (T.taken trace.old) (sent l (bytes_of tape.now l)) (T.taken trace.new) }
    ensures frame { T.leads_to trace.old trace.new }
{
    let bytes = tape.bytes_on(l);
    for i in 0..bytes.len() {
        trace.out_on(l, bytes[i]);
    }
}

/// Passes on the bytes that a tape has taken, lowest line first.
#[inline(always)]
fn show_lines<T: Trace>(tape: &Tape, trace: &mut T)
    ensures items { Took (T.taken trace.old) (bytes_shown 0 LINES tape.now) (T.taken trace.new) }
    ensures frame { T.leads_to trace.old trace.new }
{
    if tape.is_silent() {
        return;
    }
    for l in 0..LINES {
        show_bytes(tape, l, trace);
    }
}

/// Passes on what a tape has taken: the bytes, lowest line first, and then the lines of the log, of which each wakes those who
/// sleep for its channel.
#[inline(always)]
pub(crate) fn pass_on<T: Trace>(tape: &Tape, table: &mut Table, trace: &mut T)
    requires table { IsTable table.old }
    requires slots { HaveSlots tape.now.entries }
    ensures table { table.new ≡ all_woken table.old tape.now.entries }
    ensures good { IsTable table.new }
    ensures items { Took (T.taken trace.old) (shown_by tape.now) (T.taken trace.new) }
    ensures frame { T.leads_to trace.old trace.new }
{
    show_lines(tape, trace);
    let entries = tape.entries();
    for i in 0..entries.len() {
        wake_by(entries[i], table, trace);
    }
}
