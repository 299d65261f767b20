//! Lines by which a slot gives up its image: exec(II) and wait(II).
ghost use Rattle.std.specs.Prelude.{◌≡◌, ◌≢◌, ◌<◌, List, ◌∷◌, Some, None, true, false};
ghost use Rattle.map_fit.specs.Fit.{Range};
ghost use Rattle.v6_base.specs.declared.entry.Entry.TheVariants as line;
ghost use Rattle.pick_rules.specs.Table.{empty_row, row_at, with_row, is_zombie};
ghost use Rattle.pick_rules.specs.Apply.{applied};
ghost use Rattle.pick_rules.specs.Board.{swap_fit};
ghost use Rattle.log_audit.specs.World.{board_of, ended};
ghost use Rattle.log_audit.specs.Sound.{IsLoose, IsStripped, IsWhole};

use crate::world::World;
use pick_rules::{EMPTY_ROW, Stat, TableRow};
use v6_base::{Place, Slot};

impl World {
    /// A slot without a place forgets its size.
    fn shed(&mut self, s: Slot)
        requires slot { s < 50 }
        requires loose { (cl sl : List Range) × IsLoose self.old cl sl }
        requires bare { (row_at self.old.table s).place ≡ None }
        ensures same { self.new
            ≡ record self.old { table = with_row self.old.table s (record (row_at self.old.table s) { size = 0 }) } }
        ensures loose { (cl sl : List Range) → IsLoose self.old cl sl → IsLoose self.new cl sl }
    {
        self.table.rows[s as usize].size = 0;
    }

    /// The line `bare`.
    #[tactic(auto, unfolding(pick_rules::specs::Apply::applied))]
    pub(crate) fn bare(&mut self, s: Slot)
        requires whole { IsWhole self.old }
        requires slot { s < 50 }
        requires runs { self.old.table.running ≡ Some s }
        requires user { 0 < s }
        requires placed { (row_at self.old.table s).place ≢ None }
        ensures board { board_of self.new ≡ applied (board_of self.old) (line.Bare s) }
        ensures stripped { IsStripped self.new s }
    {
        self.release(s);
        self.shed(s);
    }

    /// A slot with a block of the swap area has no process any more. The block stays claimed.
    fn clear_grave(&mut self, s: Slot, block: u16)
        requires slot { s < 50 }
        requires loose { (cl sl : List Range) × IsLoose self.old cl sl }
        requires zombie { is_zombie (row_at self.old.table s).stat ≡ true }
        requires place { (row_at self.old.table s).place ≡ Some (Place.Swap block) }
        ensures same { self.new ≡ record self.old { table = with_row self.old.table s empty_row } }
        ensures loose { (cl sl : List Range) → IsLoose self.old cl sl
            → IsLoose self.new cl (record { at = block; size = 1 } ∷ sl) }
    {
        self.table.rows[s as usize] = empty();
    }

    /// A slot with a block of the swap area has no process any more, and gives it back.
    #[tactic(auto, unfolding(pick_rules::specs::Apply::applied))]
    fn reap_grave(&mut self, s: Slot, block: u16)
        requires whole { IsWhole self.old }
        requires slot { s < 50 }
        requires zombie { is_zombie (row_at self.old.table s).stat ≡ true }
        requires place { (row_at self.old.table s).place ≡ Some (Place.Swap block) }
        ensures board { board_of self.new ≡ applied (board_of self.old) (line.Reap s) }
        ensures whole { IsWhole self.new }
    {
        self.clear_grave(s, block);
        self.give_swap(block, 1);
    }

    /// A slot without a block has no process any more.
    #[tactic(auto, unfolding(pick_rules::specs::Apply::applied))]
    fn reap_none(&mut self, s: Slot)
        requires whole { IsWhole self.old }
        requires slot { s < 50 }
        requires zombie { is_zombie (row_at self.old.table s).stat ≡ true }
        requires place { (row_at self.old.table s).place ≡ None }
        ensures board { board_of self.new ≡ applied (board_of self.old) (line.Reap s) }
        ensures whole { IsWhole self.new }
    {
        self.table.rows[s as usize] = empty();
    }

    /// The line `reap`.
    pub(crate) fn reap(&mut self, s: Slot)
        requires whole { IsWhole self.old }
        requires slot { s < 50 }
        requires zombie { is_zombie (row_at self.old.table s).stat ≡ true }
        ensures board { board_of self.new ≡ applied (board_of self.old) (line.Reap s) }
        ensures whole { IsWhole self.new }
    {
        match self.table.rows[s as usize].place {
            Some(Place::Swap(block)) => self.reap_grave(s, block),
            Some(Place::Core(_)) => unreachable!(),
            None => self.reap_none(s),
        }
    }

    /// A process without a place has ended, and keeps a block that is claimed.
    fn bury(&mut self, s: Slot, block: u16)
        requires slot { s < 50 }
        requires loose { (cl sl : List Range) × IsLoose self.old cl sl }
        requires bare { (row_at self.old.table s).place ≡ None }
        requires plain { (row_at self.old.table s).text ≡ None }
        ensures same { self.new
            ≡ record self.old {
              table = record (with_row self.old.table s
                  (ended (row_at self.old.table s) block)) { running = None };
            } }
        ensures loose { (cl sl : List Range) → IsLoose self.old cl (record { at = block; size = 1 } ∷ sl)
            → IsLoose self.new cl sl }
    {
        let row = &mut self.table.rows[s as usize];
        row.stat = Stat::Zombie;
        row.channel = None;
        row.place = Some(Place::Swap(block));
        self.table.running = None;
    }

    /// The line `exit`.
    #[tactic(auto, unfolding(pick_rules::specs::Apply::applied))]
    pub(crate) fn exit(&mut self, s: Slot, block: u16)
        requires whole { IsWhole self.old }
        requires slot { s < 50 }
        requires user { 0 < s }
        requires alive { is_zombie (row_at self.old.table s).stat ≡ false }
        requires placed { (row_at self.old.table s).place ≢ None }
        requires plain { (row_at self.old.table s).text ≡ None }
        requires found { swap_fit (board_of self.old) 1 ≡ Some block }
        ensures board { board_of self.new ≡ applied (board_of self.old) (line.Exit s block) }
        ensures whole { IsWhole self.new }
    {
        self.claim_swap(block, 1);
        self.release(s);
        self.bury(s, block);
    }
}

/// A slot with no process.
fn empty() -> TableRow
    ensures { result ≡ empty_row }
{
    EMPTY_ROW
}
