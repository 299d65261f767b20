//! Processes that make a child: fork(II).
ghost use Rattle.std.specs.Prelude.{◌≡◌, ◌≢◌, ◌<◌, ◌≤◌, ℕ, List, Some, None, true};
ghost use Rattle.map_fit.specs.Fit.{Range};
ghost use Rattle.v6_base.specs.declared.entry.Entry.TheVariants as line;
ghost use Rattle.pick_rules.specs.Table.{row_at, with_row, child_row, is_empty};
ghost use Rattle.pick_rules.specs.Board.{blocks, placed, may_load, core_fit, swap_fit};
ghost use Rattle.pick_rules.specs.Apply.{applied, in_table, joins};
ghost use Rattle.log_audit.specs.World.{board_of, born};
ghost use Rattle.log_audit.specs.Sound.{IsLoose, IsWhole, entry_at};

use crate::world::{World, blocks_of};
use pick_rules::{EMPTY_ROW, Stat, TableRow};
use v6_base::{Place, Slot};

impl World {
    /// A child that can run comes into a slot without a process, with its parent's nice. It has no text and no place yet.
    fn bear(&mut self, child: Slot, nice: i8)
        requires slot { child < 50 }
        requires loose { (cl sl : List Range) × IsLoose self.old cl sl }
        requires free { is_empty (row_at self.old.table child).stat ≡ true }
        ensures same { self.new ≡ record self.old { table = with_row self.old.table child (born nice) } }
        ensures loose { (cl sl : List Range) → IsLoose self.old cl sl → IsLoose self.new cl sl }
    {
        self.table.rows[child as usize] = born(nice);
    }

    /// A child comes into a slot without a process, and shares its parent's text. It has no place yet.
    fn make_child(&mut self, child: Slot, parent: TableRow)
        requires slot { child < 50 }
        requires loose { (cl sl : List Range) × IsLoose self.old cl sl }
        requires free { is_empty (row_at self.old.table child).stat ≡ true }
        requires text { (k : ℕ) → parent.text ≡ Some k → (k < 40) × (entry_at self.old.texts k ≢ None) }
        ensures board { board_of self.new
            ≡ joins (in_table (board_of self.old) (λ t. with_row t child (child_row parent))) parent.text }
        ensures table { self.new.table ≡ with_row self.old.table child (child_row parent) }
        ensures loose { (cl sl : List Range) → IsLoose self.old cl sl → IsLoose self.new cl sl }
    {
        self.bear(child, parent.nice);
        if let Some(k) = parent.text {
            match self.text_of(k) {
                Some(text) => self.join(child, k, text),
                None => unreachable!(),
            }
        }
    }

    /// The child's image comes to stand in core.
    #[tactic(auto, unfolding(pick_rules::specs::Apply::applied))]
    fn fork_in(&mut self, s: Slot, child: Slot, c: u16)
        requires whole { IsWhole self.old }
        requires slot { s < 50 }
        requires user { 0 < s }
        requires child { child < 50 }
        requires free { is_empty (row_at self.old.table child).stat ≡ true }
        requires some { 1 ≤ (row_at self.old.table s).size }
        requires may { may_load (board_of self.old) (row_at self.old.table s).text ≡ true }
        requires found { core_fit (board_of self.old) (row_at self.old.table s).size ≡ Some c }
        ensures board { board_of self.new ≡ applied (board_of self.old) (line.Fork s child (Place.Core c)) }
        ensures whole { IsWhole self.new }
    {
        let parent = self.table.rows[s as usize];
        self.claim_core(c, parent.size);
        self.make_child(child, parent);
        self.stand_in(child, parent.size, c);
    }

    /// The child's image comes to stand in the swap area.
    #[tactic(auto, unfolding(pick_rules::specs::Apply::applied))]
    fn fork_out(&mut self, s: Slot, child: Slot, block: u16)
        requires whole { IsWhole self.old }
        requires slot { s < 50 }
        requires user { 0 < s }
        requires child { child < 50 }
        requires free { is_empty (row_at self.old.table child).stat ≡ true }
        requires some { 1 ≤ (row_at self.old.table s).size }
        requires found { swap_fit (board_of self.old) (blocks (row_at self.old.table s).size) ≡ Some block }
        ensures board { board_of self.new ≡ applied (board_of self.old) (line.Fork s child (Place.Swap block)) }
        ensures whole { IsWhole self.new }
    {
        let parent = self.table.rows[s as usize];
        self.claim_swap(block, blocks_of(parent.size));
        self.make_child(child, parent);
        self.stand_out(child, parent.size, block);
    }

    /// The line `fork`.
    pub(crate) fn fork(&mut self, s: Slot, child: Slot, place: Place)
        requires whole { IsWhole self.old }
        requires slot { s < 50 }
        requires user { 0 < s }
        requires child { child < 50 }
        requires free { is_empty (row_at self.old.table child).stat ≡ true }
        requires some { 1 ≤ (row_at self.old.table s).size }
        requires found { placed (board_of self.old) s (row_at self.old.table s).size ≡ Some place }
        ensures board { board_of self.new ≡ applied (board_of self.old) (line.Fork s child place) }
        ensures whole { IsWhole self.new }
    {
        match place {
            Place::Core(c) => self.fork_in(s, child, c),
            Place::Swap(block) => self.fork_out(s, child, block),
        }
    }
}

/// A child that can run, with its parent's nice. It has no text and no place yet.
fn born(nice: i8) -> TableRow
    ensures { result ≡ born nice }
{
    TableRow {
        stat: Stat::Ready,
        nice,
        ..EMPTY_ROW
    }
}
