//! Processes that leave their text: exec(II) and exit(II).
ghost use Rattle.std.specs.Prelude.{◌≡◌, ◌≢◌, ◌<◌, ◌≤◌, ◌-◌, ◌==◌, List, ◌∷◌, Some, None, true, false, slice_set, if◌then◌else◌};
ghost use Rattle.map_fit.specs.Fit.{Range};
ghost use Rattle.v6_base.specs.declared.entry.Entry.TheVariants as line;
ghost use Rattle.pick_rules.specs.Table.{row_at, with_row, is_in_core};
ghost use Rattle.pick_rules.specs.Board.{blocks};
ghost use Rattle.pick_rules.specs.Apply.{applied, left_text, parted, goes_if_unused};
ghost use Rattle.log_audit.specs.World.{board_of, unshared, less_loaded, less_used};
ghost use Rattle.log_audit.specs.Sound.{IsLoose, IsWhole, entry_at};

use crate::swapper::is_in_core;
use crate::world::{TextRow, World, blocks_of};
use v6_base::Slot;

impl World {
    /// A slot in core leaves its text, which has one user less, and one less in core. The text's clicks stay claimed where
    /// nobody uses them any more.
    fn part_in(&mut self, s: Slot, k: u8, text: TextRow)
        requires slot { s < 50 }
        requires loose { (cl sl : List Range) × IsLoose self.old cl sl }
        requires there { is_in_core (row_at self.old.table s).place ≡ true }
        requires shared { (row_at self.old.table s).text ≡ Some k }
        requires text { entry_at self.old.texts k ≡ Some text }
        requires small { k < 40 }
        requires used { 1 ≤ text.users }
        requires loaded { 1 ≤ text.loaded }
        ensures same { self.new
            ≡ record self.old {
              table = with_row self.old.table s (unshared (row_at self.old.table s));
              texts = slice_set self.old.texts k (Some (less_used (less_loaded text)));
            } }
        ensures loose { (cl sl : List Range) → IsLoose self.old cl sl
            → IsLoose self.new (if text.loaded - 1 == 0 then record { at = text.click; size = text.clicks } ∷ cl else cl) sl }
    {
        self.texts[k as usize] = Some(TextRow {
            users: text.users - 1,
            loaded: text.loaded - 1,
            ..text
        });
        self.table.rows[s as usize].text = None;
    }

    /// A slot out of core leaves its text, which has one user less.
    fn part_out(&mut self, s: Slot, k: u8, text: TextRow)
        requires slot { s < 50 }
        requires loose { (cl sl : List Range) × IsLoose self.old cl sl }
        requires away { is_in_core (row_at self.old.table s).place ≡ false }
        requires shared { (row_at self.old.table s).text ≡ Some k }
        requires text { entry_at self.old.texts k ≡ Some text }
        requires small { k < 40 }
        requires used { 1 ≤ text.users }
        ensures same { self.new
            ≡ record self.old {
              table = with_row self.old.table s (unshared (row_at self.old.table s));
              texts = slice_set self.old.texts k (Some (less_used text));
            } }
        ensures loose { (cl sl : List Range) → IsLoose self.old cl sl → IsLoose self.new cl sl }
    {
        self.texts[k as usize] = Some(TextRow {
            users: text.users - 1,
            ..text
        });
        self.table.rows[s as usize].text = None;
    }

    /// A text that nobody uses has no entry any more. Its blocks stay claimed.
    fn forget(&mut self, k: u8, text: TextRow)
        requires loose { (cl sl : List Range) × IsLoose self.old cl sl }
        requires text { entry_at self.old.texts k ≡ Some text }
        requires small { k < 40 }
        requires unused { text.users ≡ 0 }
        ensures same { self.new ≡ record self.old { texts = slice_set self.old.texts k None } }
        ensures loose { (cl sl : List Range) → IsLoose self.old cl sl
            → IsLoose self.new cl (record { at = text.block; size = blocks text.clicks } ∷ sl) }
    {
        let _ = text;
        self.texts[k as usize] = None;
    }

    /// A slot leaves its text.
    fn part(&mut self, s: Slot, k: u8)
        requires whole { IsWhole self.old }
        requires slot { s < 50 }
        requires user { 0 < s }
        requires shared { (row_at self.old.table s).text ≡ Some k }
        ensures board { board_of self.new ≡ parted (left_text (board_of self.old) s) k }
        ensures there { entry_at self.new.texts k ≢ None }
        ensures whole { IsWhole self.new }
    {
        let place = self.table.rows[s as usize].place;
        match self.text_of(k) {
            Some(text) => {
                if is_in_core(place) {
                    self.part_in(s, k, text);
                    self.give_gone(text);
                } else {
                    self.part_out(s, k, text);
                }
            }
            None => unreachable!(),
        }
    }

    /// A text goes, with its blocks, where nobody uses it.
    fn go_if_unused(&mut self, k: u8)
        requires whole { IsWhole self.old }
        requires small { k < 40 }
        requires there { entry_at self.old.texts k ≢ None }
        ensures board { board_of self.new ≡ goes_if_unused (board_of self.old) k }
        ensures whole { IsWhole self.new }
    {
        match self.text_of(k) {
            Some(text) => {
                if text.users == 0 {
                    self.forget(k, text);
                    self.give_swap(text.block, blocks_of(text.clicks));
                }
            }
            None => unreachable!(),
        }
    }

    /// The line `drop`.
    #[tactic(auto, unfolding(pick_rules::specs::Apply::applied))]
    pub(crate) fn leave(&mut self, s: Slot, k: u8, sticky: bool)
        requires whole { IsWhole self.old }
        requires slot { s < 50 }
        requires user { 0 < s }
        requires small { k < 40 }
        requires shared { (row_at self.old.table s).text ≡ Some k }
        ensures board { board_of self.new ≡ applied (board_of self.old) (line.Leave s k sticky) }
        ensures whole { IsWhole self.new }
    {
        self.part(s, k);
        if !sticky {
            self.go_if_unused(k);
        }
    }
}
