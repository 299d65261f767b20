//! The copy of an image for a child: `newproc` in Lions' Commentary, `slp.c`.
ghost use Rattle.std.specs.Prelude.{◌≡◌, ◌<◌, ℕ, None, Some, IfErr, MatchResult};
ghost use Rattle.text_tab.specs.Table.{row_at as text_row, IsUsed};
ghost use Rattle.image_keep.specs.Kept.{HasImage, Nothing, keeping, text_of, area_of, clicks_of};
ghost use Rattle.image_keep.specs.Places.{placed};
ghost use Rattle.image_keep.specs.Moves.{forked_entries, forked_at};

use crate::finding::{may_stand, take_place};
use crate::images::{Images, NoSwap};
use crate::parts::{at_row, clicks_of, place_click, place_of, row_of, set_row};
use text_tab::{TextId, Texts};
use v6_base::{Place, Slot};

/// A child shares a text, and is in core where its image is there.
#[tactic(auto, using(crate::proofs::Recounting::change_twice))]
fn share_text(texts: &mut Texts, t: TextId, place: Place)
    requires used { IsUsed texts.old t }
    requires few_users { (text_row texts.old t).users < 65535 }
    requires few_loaded { (text_row texts.old t).loaded < 65535 }
    ensures { texts.new ≡ forked_entries texts.old (Some t) place }
{
    texts.join(t);
    match place {
        Place::Core(click) => texts.load(t, click),
        Place::Swap(_) => {}
    }
}

/// A child shares its parent's text, if that has one.
fn fork_text(texts: &mut Texts, text: Option<TextId>, place: Place)
    requires used { (t : ℕ) → text ≡ Some t → IsUsed texts.old t }
    requires few_users { (t : ℕ) → text ≡ Some t → (text_row texts.old t).users < 65535 }
    requires few_loaded { (t : ℕ) → text ≡ Some t → (text_row texts.old t).loaded < 65535 }
    ensures { texts.new ≡ forked_entries texts.old text place }
{
    match text {
        Some(t) => share_text(texts, t, place),
        None => {}
    }
}

impl Images {
    /// Makes a copy of a slot's image in a slot without one, by first fit; the text is shared. The answer is where the
    /// copy stands. Lions' Commentary, `newproc` in `slp.c`.
    ///
    /// # Errors
    ///
    /// `NoSwap`: exactly where neither core nor the swap area has room. Nothing has changed then.
    pub fn copy_for_fork(&mut self, from: Slot, to: Slot) -> Result<Place, NoSwap>
        requires image { HasImage self.old.kept from }
        requires slot { to < 50 }
        requires nothing { keeping self.old.kept to ≡ Nothing }
        requires no_text { text_of self.old.kept to ≡ None }
        ensures place { MatchResult result
            (λ place. placed self.old.kept from (clicks_of (area_of self.old.kept from)) ≡ Some place)
            (λ _. placed self.old.kept from (clicks_of (area_of self.old.kept from)) ≡ None) }
        ensures kept { self.new.kept ≡ forked_at self.old.kept from to (placed self.old.kept from (clicks_of (area_of self.old.kept from))) }
        ensures stays { IfErr result (λ _. self.new ≡ self.old) }
    {
        let row = row_of(&self.rows, from as usize);
        let clicks = clicks_of(row);
        let at = place_click(self.core, place_of(row));
        let stands = may_stand(&self.texts, row.text);
        let place = match take_place(&mut self.core_map, &mut self.swap_map, stands, clicks) {
            Some(place) => place,
            None => return Err(NoSwap),
        };
        let copy = place_click(self.core, place);
        self.memory.copy(at, copy, clicks);
        fork_text(&mut self.texts, row.text, place);
        set_row(&mut self.rows, to as usize, at_row(row, place));
        Ok(place)
    }
}
