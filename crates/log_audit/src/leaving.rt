//! Images that leave their places.
ghost use Rattle.std.specs.Prelude.{◌≡◌, ◌≢◌, ◌<◌, ◌≤◌, ◌-◌, ◌==◌, List, ◌∷◌, length, Some, None, false, if◌then◌else◌};
ghost use Rattle.map_fit.specs.Fit.{Range};
ghost use Rattle.pick_rules.specs.Table.{row_at, with_row, is_zombie};
ghost use Rattle.pick_rules.specs.Apply.{without_place};
ghost use Rattle.log_audit.specs.World.{board_of, unplaced};
ghost use Rattle.log_audit.specs.Sound.{IsLoose};

use crate::world::{TextRow, World, blocks_of};
use v6_base::{Place, Slot};

impl World {
    /// The clicks of a text that nobody uses any more in core are given back.
    pub(crate) fn give_gone(&mut self, text: TextRow)
        requires loose { (cl sl : List Range)
            × IsLoose self.old (if text.loaded - 1 == 0 then record { at = text.click; size = text.clicks }
            ∷ cl else cl) sl × (length cl ≤ 5) }
        requires some { 1 ≤ text.loaded }
        ensures board { board_of self.new ≡ board_of self.old }
        ensures table { self.new.table ≡ self.old.table }
        ensures loose { (cl sl : List Range)
            → IsLoose self.old (if text.loaded - 1 == 0 then record { at = text.click; size = text.clicks }
            ∷ cl else cl) sl → IsLoose self.new cl sl }
    {
        if text.loaded - 1 == 0 {
            self.give_core(text.click, text.clicks);
        }
    }

    /// The image of a slot gives back its blocks.
    fn release_swap(&mut self, s: Slot, block: u16)
        requires slot { s < 50 }
        requires user { 0 < s }
        requires loose { (cl sl : List Range) × IsLoose self.old cl sl × (length cl ≤ 3) × (length sl ≤ 3) }
        requires alive { is_zombie (row_at self.old.table s).stat ≡ false }
        requires place { (row_at self.old.table s).place ≡ Some (Place.Swap block) }
        ensures board { board_of self.new ≡ without_place (board_of self.old) s }
        ensures table { self.new.table ≡ with_row self.old.table s (unplaced (row_at self.old.table s)) }
        ensures loose { (cl sl : List Range) → IsLoose self.old cl sl → IsLoose self.new cl sl }
    {
        let size = self.table.rows[s as usize].size;
        self.leave_swap(s, block);
        self.give_swap(block, blocks_of(size));
    }

    /// The image of a slot without a text gives back its clicks.
    fn release_core(&mut self, s: Slot, c: u16)
        requires slot { s < 50 }
        requires user { 0 < s }
        requires loose { (cl sl : List Range) × IsLoose self.old cl sl × (length cl ≤ 3) × (length sl ≤ 3) }
        requires alive { is_zombie (row_at self.old.table s).stat ≡ false }
        requires place { (row_at self.old.table s).place ≡ Some (Place.Core c) }
        requires plain { (row_at self.old.table s).text ≡ None }
        ensures board { board_of self.new ≡ without_place (board_of self.old) s }
        ensures table { self.new.table ≡ with_row self.old.table s (unplaced (row_at self.old.table s)) }
        ensures loose { (cl sl : List Range) → IsLoose self.old cl sl → IsLoose self.new cl sl }
    {
        let size = self.table.rows[s as usize].size;
        self.leave_core(s, c);
        self.give_core(c, size);
    }

    /// The image of a slot gives back its clicks, and those of its text where it was the last user in core.
    fn release_shared(&mut self, s: Slot, c: u16, k: u8)
        requires slot { s < 50 }
        requires user { 0 < s }
        requires loose { (cl sl : List Range) × IsLoose self.old cl sl × (length cl ≤ 3) × (length sl ≤ 3) }
        requires alive { is_zombie (row_at self.old.table s).stat ≡ false }
        requires place { (row_at self.old.table s).place ≡ Some (Place.Core c) }
        requires shared { (row_at self.old.table s).text ≡ Some k }
        ensures board { board_of self.new ≡ without_place (board_of self.old) s }
        ensures table { self.new.table ≡ with_row self.old.table s (unplaced (row_at self.old.table s)) }
        ensures loose { (cl sl : List Range) → IsLoose self.old cl sl → IsLoose self.new cl sl }
    {
        let size = self.table.rows[s as usize].size;
        match self.text_of(k) {
            Some(text) => {
                self.leave_shared(s, c, k, text);
                self.give_core(c, size);
                self.give_gone(text);
            }
            None => unreachable!(),
        }
    }

    /// The image of a slot gives back its place.
    pub(crate) fn release(&mut self, s: Slot)
        requires slot { s < 50 }
        requires user { 0 < s }
        requires loose { (cl sl : List Range) × IsLoose self.old cl sl × (length cl ≤ 3) × (length sl ≤ 3) }
        requires alive { is_zombie (row_at self.old.table s).stat ≡ false }
        requires placed { (row_at self.old.table s).place ≢ None }
        ensures board { board_of self.new ≡ without_place (board_of self.old) s }
        ensures table { self.new.table ≡ with_row self.old.table s (unplaced (row_at self.old.table s)) }
        ensures loose { (cl sl : List Range) → IsLoose self.old cl sl → IsLoose self.new cl sl }
    {
        let row = self.table.rows[s as usize];
        match row.place {
            Some(Place::Core(c)) => match row.text {
                Some(k) => self.release_shared(s, c, k),
                None => self.release_core(s, c),
            },
            Some(Place::Swap(block)) => self.release_swap(s, block),
            None => unreachable!(),
        }
    }
}
