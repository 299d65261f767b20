//! The choice of who runs: `swtch` in Lions' Commentary, `slp.c`.
ghost use Rattle.std.specs.Prelude.{◌≡◌, ◌<◌, ◌&&◌, ◌||◌, ◌==◌, MatchOption, ⊤, Some, int_lt, slice_index_or, if◌then◌else◌};
ghost use Rattle.pick_rules.specs.declared.table.Table.{Table};
ghost use Rattle.pick_rules.specs.Table.{empty_row, is_ready, is_in_core};
ghost use Rattle.pick_rules.specs.Choice.{IsChoice, chosen};

use crate::row::{Stat, TableRow};
use crate::sleepers::is_in_core;
use v6_base::Slot;

/// Whether a slot with a row is ready and in core. The swapper always is in core.
fn can_run(row: TableRow, s: Slot) -> bool
    ensures { result ≡ (is_ready row.stat && ((s == 0) || is_in_core row.place)) }
{
    row.stat == Stat::Ready && (s == 0 || is_in_core(row.place))
}

/// Of the best so far and a slot the one that goes first: the best so far, where their priorities are equal.
fn better(rows: &[TableRow; 50], best: Option<Slot>, s: Slot) -> Option<Slot>
    requires best { MatchOption best ⊤ (λ b. b < 50) }
    requires slot { s < 50 }
    ensures value { MatchOption best (result ≡ Some s) (λ b. result ≡ (
        if int_lt (slice_index_or rows.now s empty_row).pri (slice_index_or rows.now b empty_row).pri
        then Some s else Some b)) }
    ensures slot { MatchOption result ⊤ (λ b. b < 50) }
{
    match best {
        Some(b) if rows[b as usize].pri <= rows[s as usize].pri => Some(b),
        _ => Some(s),
    }
}

/// Of the slots that can run the first of the least priority, round from the one after the last that was chosen.
pub(crate) fn choose(rows: &[TableRow; 50], last: Slot) -> Option<Slot>
    requires { last < 50 }
    ensures choice { (t : Table) → t.rows ≡ rows.now → t.last ≡ last → IsChoice t result }
    ensures value { (t : Table) → t.rows ≡ rows.now → t.last ≡ last → result ≡ chosen t }
    ensures slot { MatchOption result ⊤ (λ s. s < 50) }
{
    let mut best: Option<Slot> = None;
    for s in last + 1..50 {
        if can_run(rows[s as usize], s) {
            best = better(rows, best, s);
        }
    }
    for s in 0..last + 1 {
        if can_run(rows[s as usize], s) {
            best = better(rows, best, s);
        }
    }
    best
}
