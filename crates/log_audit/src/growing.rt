//! Images that grow, and take a new place: break(II), and a stack that needs more.
ghost use Rattle.std.specs.Prelude.{◌≡◌, ◌≢◌, ◌<◌, ◌≤◌, List, ◌∷◌, Some, None, true, false};
ghost use Rattle.map_fit.specs.Fit.{Range};
ghost use Rattle.v6_base.specs.declared.entry.Entry.TheVariants as line;
ghost use Rattle.pick_rules.specs.Table.{row_at, with_row, is_empty, is_zombie};
ghost use Rattle.pick_rules.specs.Board.{placed, may_load, core_fit};
ghost use Rattle.pick_rules.specs.Apply.{applied, at_place, without_place};
ghost use Rattle.log_audit.specs.World.{board_of, in_at};
ghost use Rattle.log_audit.specs.Sound.{IsLoose, IsWhole};

use crate::world::World;
use v6_base::{Place, Slot};

impl World {
    /// The image of a slot goes from one click of core to another, which is claimed. Its text stays where it is, and the
    /// clicks that it had stay claimed.
    fn shift(&mut self, s: Slot, clicks: u16, from: u16, to: u16)
        requires slot { s < 50 }
        requires loose { (cl sl : List Range) × IsLoose self.old cl sl }
        requires place { (row_at self.old.table s).place ≡ Some (Place.Core from) }
        requires used { is_empty (row_at self.old.table s).stat ≡ false }
        requires alive { is_zombie (row_at self.old.table s).stat ≡ false }
        requires some { 1 ≤ clicks }
        requires most { clicks ≤ 2048 }
        ensures same { self.new
            ≡ record self.old { table = with_row self.old.table s (in_at (row_at self.old.table s) clicks to) } }
        ensures loose { (cl sl : List Range) → IsLoose self.old (record { at = to; size = clicks } ∷ cl) sl
            → IsLoose self.new (record { at = from; size = (row_at self.old.table s).size } ∷ cl) sl }
    {
        let _ = from;
        let row = &mut self.table.rows[s as usize];
        row.size = clicks;
        row.place = Some(Place::Core(to));
    }

    /// The image of a slot in core grows, and takes a new place there.
    fn grow_inside(&mut self, s: Slot, clicks: u16, from: u16, to: u16)
        requires whole { IsWhole self.old }
        requires slot { s < 50 }
        requires user { 0 < s }
        requires place { (row_at self.old.table s).place ≡ Some (Place.Core from) }
        requires used { is_empty (row_at self.old.table s).stat ≡ false }
        requires alive { is_zombie (row_at self.old.table s).stat ≡ false }
        requires some { 1 ≤ clicks }
        requires most { clicks ≤ 2048 }
        requires found { core_fit (board_of self.old) clicks ≡ Some to }
        ensures board { board_of self.new ≡ at_place (without_place (board_of self.old) s) s clicks (Place.Core to) }
        ensures whole { IsWhole self.new }
    {
        let size = self.table.rows[s as usize].size;
        self.claim_core(to, clicks);
        self.shift(s, clicks, from, to);
        self.give_core(from, size);
    }

    /// The image of a slot in the swap area grows, and takes a place in core.
    fn grow_back(&mut self, s: Slot, clicks: u16, block: u16, to: u16)
        requires whole { IsWhole self.old }
        requires slot { s < 50 }
        requires user { 0 < s }
        requires place { (row_at self.old.table s).place ≡ Some (Place.Swap block) }
        requires used { is_empty (row_at self.old.table s).stat ≡ false }
        requires alive { is_zombie (row_at self.old.table s).stat ≡ false }
        requires some { 1 ≤ clicks }
        requires most { clicks ≤ 2048 }
        requires may { may_load (board_of self.old) (row_at self.old.table s).text ≡ true }
        requires found { core_fit (board_of self.old) clicks ≡ Some to }
        ensures board { board_of self.new ≡ at_place (without_place (board_of self.old) s) s clicks (Place.Core to) }
        ensures whole { IsWhole self.new }
    {
        let _ = block;
        self.claim_core(to, clicks);
        self.release(s);
        self.stand_in(s, clicks, to);
    }

    /// The image of a slot grows, and takes a place in core.
    fn grow_in(&mut self, s: Slot, clicks: u16, to: u16)
        requires whole { IsWhole self.old }
        requires slot { s < 50 }
        requires user { 0 < s }
        requires placed { (row_at self.old.table s).place ≢ None }
        requires used { is_empty (row_at self.old.table s).stat ≡ false }
        requires alive { is_zombie (row_at self.old.table s).stat ≡ false }
        requires some { 1 ≤ clicks }
        requires most { clicks ≤ 2048 }
        requires may { may_load (board_of self.old) (row_at self.old.table s).text ≡ true }
        requires found { core_fit (board_of self.old) clicks ≡ Some to }
        ensures board { board_of self.new ≡ at_place (without_place (board_of self.old) s) s clicks (Place.Core to) }
        ensures whole { IsWhole self.new }
    {
        let row = self.table.rows[s as usize];
        match row.place {
            Some(Place::Core(from)) => self.grow_inside(s, clicks, from, to),
            Some(Place::Swap(block)) => self.grow_back(s, clicks, block, to),
            None => unreachable!(),
        }
    }

    /// The line `size` with a place.
    #[tactic(auto, unfolding(pick_rules::specs::Apply::applied))]
    pub(crate) fn grow(&mut self, s: Slot, clicks: u16, place: Place)
        requires whole { IsWhole self.old }
        requires slot { s < 50 }
        requires user { 0 < s }
        requires placed { (row_at self.old.table s).place ≢ None }
        requires used { is_empty (row_at self.old.table s).stat ≡ false }
        requires alive { is_zombie (row_at self.old.table s).stat ≡ false }
        requires some { 1 ≤ clicks }
        requires most { clicks ≤ 2048 }
        requires found { placed (board_of self.old) s clicks ≡ Some place }
        ensures board { board_of self.new ≡ applied (board_of self.old) (line.Size s clicks place) }
        ensures whole { IsWhole self.new }
    {
        match place {
            Place::Core(to) => self.grow_in(s, clicks, to),
            Place::Swap(block) => self.go_out(s, clicks, block),
        }
    }
}
