//! Images that come into core: Lions' Commentary, `sched` in `slp.c`.
ghost use Rattle.std.specs.Prelude.{◌≡◌, ◌<◌, ◌+◌, ℕ, List, [], Some, true, false, slice_set};
ghost use Rattle.map_fit.specs.Fit.{Range};
ghost use Rattle.v6_base.specs.declared.entry.Entry.TheVariants as line;
ghost use Rattle.pick_rules.specs.Table.{row_at, with_row, is_empty, is_zombie};
ghost use Rattle.pick_rules.specs.Board.{may_load, core_fit};
ghost use Rattle.pick_rules.specs.Swapper.{need};
ghost use Rattle.pick_rules.specs.Apply.{applied, at_place, brought};
ghost use Rattle.log_audit.specs.World.{board_of, first_at, rested};
ghost use Rattle.log_audit.specs.Sound.{IsLoose, IsWhole, entry_at};

use crate::world::{TextRow, World};
use v6_base::{Place, Slot};

impl World {
    /// A text that nobody uses in core gets its click there.
    fn set_click(&mut self, k: u8, text: TextRow, c: u16)
        requires loose { (cl sl : List Range) × IsLoose self.old cl sl }
        requires text { entry_at self.old.texts k ≡ Some text }
        requires small { k < 40 }
        requires away { text.loaded ≡ 0 }
        ensures same { self.new ≡ record self.old { texts = slice_set self.old.texts k (Some (first_at text c)) } }
        ensures loose { (cl sl : List Range) → IsLoose self.old cl sl → IsLoose self.new cl sl }
    {
        self.texts[k as usize] = Some(TextRow { click: c, ..text });
    }

    /// A slot has been where it is for no second yet.
    fn rest(&mut self, s: Slot)
        requires slot { s < 50 }
        requires loose { (cl sl : List Range) × IsLoose self.old cl sl }
        ensures same { self.new ≡ record self.old { table = with_row self.old.table s (rested (row_at self.old.table s)) } }
        ensures loose { (cl sl : List Range) → IsLoose self.old cl sl → IsLoose self.new cl sl }
    {
        self.table.rows[s as usize].time = 0;
    }

    /// An image without a text, or whose text is in core, comes to stand there.
    fn come_beside(&mut self, s: Slot, block: u16, c: u16)
        requires whole { IsWhole self.old }
        requires slot { s < 50 }
        requires user { 0 < s }
        requires place { (row_at self.old.table s).place ≡ Some (Place.Swap block) }
        requires used { is_empty (row_at self.old.table s).stat ≡ false }
        requires alive { is_zombie (row_at self.old.table s).stat ≡ false }
        requires may { may_load (board_of self.old) (row_at self.old.table s).text ≡ true }
        requires found { core_fit (board_of self.old) (row_at self.old.table s).size ≡ Some c }
        ensures board { board_of self.new ≡ at_place (board_of self.old) s (row_at self.old.table s).size (Place.Core c) }
        ensures loose { IsLoose self.new [] [] }
    {
        let _ = block;
        let size = self.table.rows[s as usize].size;
        self.claim_core(c, size);
        self.release(s);
        self.stand_in(s, size, c);
    }

    /// An image whose text isn't in core comes to stand there, behind the text.
    fn come_behind(&mut self, s: Slot, block: u16, c: u16, k: u8, text: TextRow)
        requires whole { IsWhole self.old }
        requires slot { s < 50 }
        requires user { 0 < s }
        requires place { (row_at self.old.table s).place ≡ Some (Place.Swap block) }
        requires used { is_empty (row_at self.old.table s).stat ≡ false }
        requires alive { is_zombie (row_at self.old.table s).stat ≡ false }
        requires shared { (row_at self.old.table s).text ≡ Some k }
        requires text { entry_at self.old.texts k ≡ Some text }
        requires away { text.loaded ≡ 0 }
        requires found { core_fit (board_of self.old) ((row_at self.old.table s).size + text.clicks) ≡ Some c }
        ensures board { board_of self.new ≡ brought (board_of self.old) s (row_at self.old.table s).text c }
        ensures loose { IsLoose self.new [] [] }
    {
        let _ = block;
        let size = self.table.rows[s as usize].size;
        let both = size + text.clicks;
        self.claim_core(c, both);
        let behind = c + text.clicks;
        self.set_click(k, text, c);
        self.release(s);
        self.stand_shared(s, size, behind, k, TextRow { click: c, ..text });
    }

    /// An image with a text comes to stand in core, behind the text where that isn't there.
    fn come_shared(&mut self, s: Slot, block: u16, c: u16, k: u8)
        requires whole { IsWhole self.old }
        requires slot { s < 50 }
        requires user { 0 < s }
        requires place { (row_at self.old.table s).place ≡ Some (Place.Swap block) }
        requires used { is_empty (row_at self.old.table s).stat ≡ false }
        requires alive { is_zombie (row_at self.old.table s).stat ≡ false }
        requires shared { (row_at self.old.table s).text ≡ Some k }
        requires found { core_fit (board_of self.old) (need (board_of self.old) s) ≡ Some c }
        ensures board { board_of self.new ≡ brought (board_of self.old) s (row_at self.old.table s).text c }
        ensures loose { IsLoose self.new [] [] }
    {
        match self.text_of(k) {
            Some(text) => {
                if text.loaded == 0 {
                    self.come_behind(s, block, c, k, text);
                } else {
                    self.come_beside(s, block, c);
                }
            }
            None => unreachable!(),
        }
    }

    /// An image comes to stand in core, and its text before it where that isn't there.
    fn come(&mut self, s: Slot, block: u16, c: u16)
        requires whole { IsWhole self.old }
        requires slot { s < 50 }
        requires user { 0 < s }
        requires place { (row_at self.old.table s).place ≡ Some (Place.Swap block) }
        requires used { is_empty (row_at self.old.table s).stat ≡ false }
        requires alive { is_zombie (row_at self.old.table s).stat ≡ false }
        requires found { core_fit (board_of self.old) (need (board_of self.old) s) ≡ Some c }
        ensures board { board_of self.new ≡ brought (board_of self.old) s (row_at self.old.table s).text c }
        ensures loose { IsLoose self.new [] [] }
    {
        let row = self.table.rows[s as usize];
        match row.text {
            None => self.come_beside(s, block, c),
            Some(k) => self.come_shared(s, block, c, k),
        }
    }

    /// The line `in`.
    #[tactic(auto, unfolding(pick_rules::specs::Apply::applied))]
    pub(crate) fn swap_in(&mut self, s: Slot, c: u16)
        requires whole { IsWhole self.old }
        requires slot { s < 50 }
        requires user { 0 < s }
        requires out { (block : ℕ) × ((row_at self.old.table s).place ≡ Some (Place.Swap block)) }
        requires used { is_empty (row_at self.old.table s).stat ≡ false }
        requires alive { is_zombie (row_at self.old.table s).stat ≡ false }
        requires found { core_fit (board_of self.old) (need (board_of self.old) s) ≡ Some c }
        ensures board { board_of self.new ≡ applied (board_of self.old) (line.SwapIn s c) }
        ensures whole { IsWhole self.new }
    {
        let row = self.table.rows[s as usize];
        match row.place {
            Some(Place::Swap(block)) => {
                self.come(s, block, c);
                self.rest(s);
            }
            _ => unreachable!(),
        }
    }
}
