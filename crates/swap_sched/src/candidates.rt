//! Who comes in and who goes out: the searches of `sched` in Lions' Commentary, `slp.c`.
ghost use Rattle.std.specs.Prelude.{◌≡◌, ◌<◌, if◌then◌else◌, MatchOption, Some, None, ⊤};
ghost use Rattle.pick_rules.specs.Table.{is_in_core};
ghost use Rattle.pick_rules.specs.Swapper.{candidate, loaded_waiter, loaded_runner, out_if_old, makes_room};
ghost use Rattle.swap_sched.specs.inside.Searches.{asks, asks_at, waits, older, oldest_of, out_or_waits};

use pick_rules::{Stat, Table, TableRow};
use v6_base::{Place, Slot};

/// For how many seconds somebody must have waited to come in before those who can run go out for it.
const WAITED: u8 = 3;

/// For how many seconds one who can run must have been in core before it goes out.
const STAYED: u8 = 2;

/// Whether an image is in core.
fn is_in_core(place: Option<Place>) -> bool
    ensures { result ≡ is_in_core place }
{
    matches!(place, Some(Place::Core(_)))
}

/// Whether the image of a row is one of those in core that can run or sleep so that no signal wakes them, or one of those
/// out of core that can run.
fn asks(row: TableRow, loaded: bool) -> bool
    ensures { result ≡ asks loaded row }
{
    match row.stat {
        Stat::Ready => is_in_core(row.place) == loaded,
        Stat::Sleeping => loaded && is_in_core(row.place),
        _ => false,
    }
}

/// Of a slot and the best of those after it the one that has been where it is for longer: the slot, where they are equal.
fn older(table: &Table, s: Slot, best: Option<Slot>) -> Slot
    requires slot { s < 50 }
    requires best { MatchOption best ⊤ (λ b. b < 50) }
    ensures older { Some result ≡ older table.entry.now s best }
    ensures slot { result < 50 }
{
    match best {
        Some(b) => {
            if table.rows[s as usize].time < table.rows[b as usize].time {
                b
            } else {
                s
            }
        }
        None => s,
    }
}

/// The best of a slot and those after it: the best of those after it, where the slot isn't asked for.
fn better(table: &Table, s: Slot, loaded: bool, best: Option<Slot>) -> Option<Slot>
    requires slot { s < 50 }
    requires best { MatchOption best ⊤ (λ b. b < 50) }
    ensures best { result ≡ (if asks_at loaded table.entry.now s then older table.entry.now s best else best) }
    ensures slot { MatchOption result ⊤ (λ b. b < 50) }
{
    if asks(table.rows[s as usize], loaded) {
        Some(older(table, s, best))
    } else {
        best
    }
}

/// Of those in core, or out of core, that are asked for the slot of greatest time, the lowest of equals.
fn oldest(table: &Table, loaded: bool) -> Option<Slot>
    ensures oldest { result ≡ oldest_of loaded table.entry.now }
    ensures slot { MatchOption result ⊤ (λ s. s < 50) }
{
    let mut best: Option<Slot> = None;
    for k in 1..50 {
        best = better(table, 50 - k, loaded, best);
    }
    best
}

/// Who comes in next: of those that can run and are out of core the one that has been out for longest.
pub(crate) fn candidate(table: &Table) -> Option<Slot>
    ensures candidate { result ≡ candidate table.entry.now }
    ensures slot { MatchOption result ⊤ (λ s. s < 50) }
{
    oldest(table, false)
}

/// Whether a row is in core and sleeps so that a signal wakes it.
fn waits(row: TableRow) -> bool
    ensures { result ≡ waits row }
{
    match row.stat {
        Stat::Waiting => is_in_core(row.place),
        _ => false,
    }
}

/// The lowest slot in core that sleeps so that a signal wakes it.
fn loaded_waiter(table: &Table) -> Option<Slot>
    ensures waiter { result ≡ loaded_waiter table.entry.now }
    ensures slot { MatchOption result ⊤ (λ s. s < 50) }
{
    for s in 1..50 {
        if waits(table.rows[s as usize]) {
            return Some(s);
        }
    }
    None
}

/// A slot, if it has been in core for two seconds or more.
fn if_old(table: &Table, r: Slot) -> Option<Slot>
    requires { r < 50 }
    ensures goes { out_if_old table.entry.now (Some r) ≡ out_or_waits result }
    ensures slot { MatchOption result ⊤ (λ s. s < 50) }
{
    if STAYED <= table.rows[r as usize].time {
        Some(r)
    } else {
        None
    }
}

/// The one that has been in core for longest, if that is two seconds or more.
fn old_runner(table: &Table) -> Option<Slot>
    ensures goes { out_if_old table.entry.now (loaded_runner table.entry.now) ≡ out_or_waits result }
    ensures slot { MatchOption result ⊤ (λ r. r < 50) }
{
    match oldest(table, true) {
        Some(r) => if_old(table, r),
        None => None,
    }
}

/// Who goes out for a slot that finds no room, where nobody waits: the one that has been in core for longest, where the slot
/// has been out for three seconds.
fn runner_for(table: &Table, s: Slot) -> Option<Slot>
    requires { s < 50 }
    ensures goes { makes_room table.entry.now s None ≡ out_or_waits result }
    ensures slot { MatchOption result ⊤ (λ r. r < 50) }
{
    if table.rows[s as usize].time < WAITED {
        None
    } else {
        old_runner(table)
    }
}

/// Who goes out for a slot that finds no room: who sleeps so that a signal wakes it, else somebody who can run.
pub(crate) fn who_goes(table: &Table, s: Slot) -> Option<Slot>
    requires { s < 50 }
    ensures goes { makes_room table.entry.now s (loaded_waiter table.entry.now) ≡ out_or_waits result }
    ensures slot { MatchOption result ⊤ (λ r. r < 50) }
{
    match loaded_waiter(table) {
        Some(waiter) => Some(waiter),
        None => runner_for(table, s),
    }
}
