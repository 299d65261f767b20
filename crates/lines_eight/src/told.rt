//! On which channels those sleep who wait for a line: `sleep` and `wakeup` in Lions' Commentary, `slp.c`.
ghost use Rattle.std.specs.Prelude.{◌≡◌, true, ◌++◌};
ghost use Rattle.v6_base.specs.Trace as items;
ghost use Rattle.lines_eight.specs.Told.{keys_of, show_of, wakes_if};

use v6_base::{Chan, Entry, Trace};

/// What a process sleeps for that waits for keys of a line.
pub fn keys_of(l: u8) -> Chan
    ensures { result ≡ keys_of l }
{
    if l == 0 { Chan::Keys } else { Chan::KeysOf(l) }
}

/// What a process sleeps for that waits for room on a line.
pub fn show_of(l: u8) -> Chan
    ensures { result ≡ show_of l }
{
    if l == 0 { Chan::Show } else { Chan::ShowOf(l) }
}

/// Writes down who is woken by a flush of a line: who waits for keys, and then, where bytes waited to go out, who waits for
/// room.
pub fn tell_flushed<T: Trace>(l: u8, show: bool, trace: &mut T)
    ensures items { items.Took (T.taken trace.old) (wakes_if true (keys_of l) ++ wakes_if show (show_of l))
        (T.taken trace.new) }
    ensures frame { T.leads_to trace.old trace.new }
{
    trace.entry(Entry::Wake(keys_of(l)));
    if show {
        trace.entry(Entry::Wake(show_of(l)));
    }
}
