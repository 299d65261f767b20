//! Lines by which a slot takes a text: exec(II).
ghost use Rattle.std.specs.Prelude.{◌≡◌, ◌≢◌, ◌<◌, ◌≤◌, List, ◌∷◌, Some, None, false, slice_set};
ghost use Rattle.map_fit.specs.Fit.{Range};
ghost use Rattle.v6_base.specs.declared.entry.Entry.TheVariants as line;
ghost use Rattle.pick_rules.specs.Table.{row_at, with_row, is_empty, is_zombie};
ghost use Rattle.pick_rules.specs.Board.{blocks, swap_fit};
ghost use Rattle.pick_rules.specs.Apply.{applied};
ghost use Rattle.log_audit.specs.World.{board_of, sharing, more_users, new_text};
ghost use Rattle.log_audit.specs.Sound.{IsLoose, IsStripped, entry_at};

use crate::world::{TextRow, World, blocks_of};
use v6_base::Slot;

impl World {
    /// A slot without a place joins a text.
    pub(crate) fn join(&mut self, s: Slot, k: u8, text: TextRow)
        requires slot { s < 50 }
        requires loose { (cl sl : List Range) × IsLoose self.old cl sl }
        requires bare { (row_at self.old.table s).place ≡ None }
        requires plain { (row_at self.old.table s).text ≡ None }
        requires used { is_empty (row_at self.old.table s).stat ≡ false }
        requires alive { is_zombie (row_at self.old.table s).stat ≡ false }
        requires small { k < 40 }
        requires text { entry_at self.old.texts k ≡ Some text }
        requires few { text.users ≤ 50 }
        ensures same { self.new
            ≡ record self.old {
              table = with_row self.old.table s (sharing (row_at self.old.table s) k);
              texts = slice_set self.old.texts k (Some (more_users text));
            } }
        ensures loose { (cl sl : List Range) → IsLoose self.old cl sl → IsLoose self.new cl sl }
    {
        self.texts[k as usize] = Some(TextRow {
            users: text.users + 1,
            ..text
        });
        self.table.rows[s as usize].text = Some(k);
    }

    /// A slot without a place makes a text, whose blocks are claimed.
    fn found(&mut self, s: Slot, k: u8, clicks: u16, block: u16)
        requires slot { s < 50 }
        requires loose { (cl sl : List Range) × IsLoose self.old cl sl }
        requires bare { (row_at self.old.table s).place ≡ None }
        requires plain { (row_at self.old.table s).text ≡ None }
        requires used { is_empty (row_at self.old.table s).stat ≡ false }
        requires alive { is_zombie (row_at self.old.table s).stat ≡ false }
        requires small { k < 40 }
        requires free { entry_at self.old.texts k ≡ None }
        requires some { 1 ≤ clicks }
        requires most { clicks ≤ 2048 }
        ensures same { self.new
            ≡ record self.old {
              table = with_row self.old.table s (sharing (row_at self.old.table s) k);
              texts = slice_set self.old.texts k (Some (new_text clicks block));
            } }
        ensures loose { (cl sl : List Range) → IsLoose self.old cl (record { at = block; size = blocks clicks } ∷ sl)
            → IsLoose self.new cl sl }
    {
        self.texts[k as usize] = Some(TextRow {
            clicks,
            users: 1,
            loaded: 0,
            click: 0,
            block,
        });
        self.table.rows[s as usize].text = Some(k);
    }

    /// The line `text`.
    #[tactic(auto, unfolding(pick_rules::specs::Apply::applied))]
    pub(crate) fn make_text(&mut self, s: Slot, k: u8, clicks: u16, block: u16)
        requires stripped { IsStripped self.old s }
        requires slot { s < 50 }
        requires bare { (row_at self.old.table s).place ≡ None }
        requires plain { (row_at self.old.table s).text ≡ None }
        requires used { is_empty (row_at self.old.table s).stat ≡ false }
        requires alive { is_zombie (row_at self.old.table s).stat ≡ false }
        requires small { k < 40 }
        requires free { entry_at self.old.texts k ≡ None }
        requires some { 1 ≤ clicks }
        requires most { clicks ≤ 2048 }
        requires fits { swap_fit (board_of self.old) (blocks clicks) ≡ Some block }
        ensures board { board_of self.new ≡ applied (board_of self.old) (line.Text s k clicks block) }
        ensures stripped { IsStripped self.new s }
    {
        self.claim_swap(block, blocks_of(clicks));
        self.found(s, k, clicks, block);
    }

    /// The line `share`.
    #[tactic(auto, unfolding(pick_rules::specs::Apply::applied))]
    pub(crate) fn share(&mut self, s: Slot, k: u8)
        requires stripped { IsStripped self.old s }
        requires slot { s < 50 }
        requires bare { (row_at self.old.table s).place ≡ None }
        requires plain { (row_at self.old.table s).text ≡ None }
        requires used { is_empty (row_at self.old.table s).stat ≡ false }
        requires alive { is_zombie (row_at self.old.table s).stat ≡ false }
        requires small { k < 40 }
        requires there { entry_at self.old.texts k ≢ None }
        ensures board { board_of self.new ≡ applied (board_of self.old) (line.Share s k) }
        ensures stripped { IsStripped self.new s }
    {
        match self.text_of(k) {
            Some(text) => self.join(s, k, text),
            None => unreachable!(),
        }
    }
}
