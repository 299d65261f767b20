//! Images come into core, and go out of it.
ghost use Rattle.std.specs.Prelude.{◌≡◌, ◌+◌, ◌*◌, ◌-◌, ◌<◌, ◌≤◌, ℕ, ◌||◌, true, false, None, Some, IfErr, MatchResult, length};
ghost use Rattle.core_mem.specs.Bytes.{part, over};
ghost use Rattle.map_fit.specs.Free.{is_free};
ghost use Rattle.text_tab.specs.Table.{row_at as text_row, IsUsed, unloaded, with_change};
ghost use Rattle.image_keep.specs.declared.memory.TheConstants.{SWAP_BYTES};
ghost use Rattle.image_keep.specs.Line.{line_of};
ghost use Rattle.image_keep.specs.Kept.{IsOut, IsLoaded, area_of, clicks_of};
ghost use Rattle.image_keep.specs.Memory.{swap_at, IsText};
ghost use Rattle.image_keep.specs.Places.{blocks, core_fit, swap_fit};
ghost use Rattle.image_keep.specs.Moves.{need_by, need_for, come_by, come_line, come_texts, clicks_to_load, swapped_in, last_units, leaving_units, leave_texts, swapped_out};

use crate::images::{Images, NoSwap};
use crate::memory::Memory;
use crate::parts::{
    block_click, block_of, blocks_of, clicks_of, give_back, place_click, place_of, row_of,
    set_place,
};
use map_fit::Holes;
use text_tab::{TextId, TextRow, Texts};
use v6_base::{Place, Slot};

/// There is no room in core.
#[derive(Clone, Copy, Debug, PartialEq, Eq)]
pub struct NoCore;

/// The clicks of a text that is not in core.
fn need_by(row: TextRow) -> u16
    ensures { result ≡ need_by row }
{
    if row.loaded == 0 { row.clicks } else { 0 }
}

/// The clicks of the text of a slot, if it has one that is not in core.
fn need_of(texts: &Texts, text: Option<TextId>) -> u16
    requires { (t : ℕ) → text ≡ Some t → IsUsed texts.now t }
    ensures { result ≡ need_for texts.now text }
{
    match text {
        Some(t) => need_by(*texts.row(t)),
        None => 0,
    }
}

/// Copies a text to core, where it isn't there.
fn copy_text(memory: &mut Memory, core: u16, row: TextRow, at: u16)
    requires text { IsText (line_of memory.old) core row }
    requires low { 1 ≤ at }
    requires high { at + need_by row ≤ core + 1 }
    requires core { length memory.old.core ≡ 64 * core }
    requires swap { length memory.old.swap ≡ SWAP_BYTES }
    ensures line { line_of memory.new ≡ come_by (line_of memory.old) core at row }
    ensures new_core { length memory.new.core ≡ length memory.old.core }
    ensures new_swap { length memory.new.swap ≡ length memory.old.swap }
{
    if row.loaded == 0 {
        memory.copy(
            block_click(core, row.block),
            usize::from(at) - 1,
            row.clicks,
        );
    }
}

/// A text has one user more in core; the first brings it there.
pub(crate) fn load_text(
    memory: &mut Memory,
    texts: &mut Texts,
    core: u16,
    text: Option<TextId>,
    at: u16,
)
    requires used { (t : ℕ) → text ≡ Some t → IsUsed texts.old t }
    requires few { (t : ℕ) → text ≡ Some t → (text_row texts.old t).loaded < 65535 }
    requires text { (t : ℕ) → text ≡ Some t → IsText (line_of memory.old) core (text_row texts.old t) }
    requires low { 1 ≤ at }
    requires high { at + need_for texts.old text ≤ core + 1 }
    requires core { length memory.old.core ≡ 64 * core }
    requires swap { length memory.old.swap ≡ SWAP_BYTES }
    ensures line { line_of memory.new ≡ come_line (line_of memory.old) core texts.old text at }
    ensures texts { texts.new ≡ come_texts texts.old text at }
    ensures new_core { length memory.new.core ≡ length memory.old.core }
    ensures new_swap { length memory.new.swap ≡ length memory.old.swap }
{
    match text {
        Some(t) => {
            let row = *texts.row(t);
            copy_text(memory, core, row, at);
            texts.load(t, at);
        }
        None => {}
    }
}

/// Copies an image from a block to a click.
fn copy_image(memory: &mut Memory, core: u16, block: u16, to: u16, clicks: u16)
    requires low { 1 ≤ to }
    requires high { to + clicks ≤ core + 1 }
    requires some { 0 < clicks }
    requires block { 4000 ≤ block }
    requires end { block + blocks clicks ≤ 4872 }
    requires core { length memory.old.core ≡ 64 * core }
    requires swap { length memory.old.swap ≡ SWAP_BYTES }
    ensures line { line_of memory.new
        ≡ over (line_of memory.old) (64 * (to - 1)) (part (line_of memory.old) (swap_at core block) (64 * clicks)) }
    ensures new_core { length memory.new.core ≡ length memory.old.core }
    ensures new_swap { length memory.new.swap ≡ length memory.old.swap }
{
    memory.copy(block_click(core, block), usize::from(to) - 1, clicks);
}

/// One user of a text leaves core; the last leaves its clicks free.
#[tactic(auto, using(crate::proofs::Ended::or_false))]
fn unload_one(texts: &mut Texts, core_map: &mut Holes, t: TextId)
    requires used { IsUsed texts.old t }
    requires some { 0 < (text_row texts.old t).loaded }
    requires clicks { 0 < (text_row texts.old t).clicks }
    requires small { (text_row texts.old t).at + (text_row texts.old t).clicks ≤ 65535 }
    requires taken { (x : ℕ) → last_units (text_row texts.old t) x ≡ true → is_free core_map.old x ≡ false }
    requires room { length core_map.old < 100 }
    ensures texts { texts.new ≡ with_change texts.old t unloaded }
    ensures core { (x : ℕ) → is_free core_map.new x ≡ (is_free core_map.old x || last_units (text_row texts.old t) x) }
{
    let row = *texts.row(t);
    if texts.unload(t) {
        core_map.give(row.at, row.clicks);
    }
}

/// One user fewer of a slot's text, if it has one, is in core.
#[tactic(auto, using(crate::proofs::Ended::or_false))]
pub(crate) fn unload_text(texts: &mut Texts, core_map: &mut Holes, text: Option<TextId>)
    requires used { (t : ℕ) → text ≡ Some t → IsUsed texts.old t }
    requires some { (t : ℕ) → text ≡ Some t → 0 < (text_row texts.old t).loaded }
    requires clicks { (t : ℕ) → text ≡ Some t → 0 < (text_row texts.old t).clicks }
    requires small { (t : ℕ) → text ≡ Some t → (text_row texts.old t).at + (text_row texts.old t).clicks ≤ 65535 }
    requires taken { (x : ℕ) → leaving_units texts.old text x ≡ true → is_free core_map.old x ≡ false }
    requires room { length core_map.old < 100 }
    ensures texts { texts.new ≡ leave_texts texts.old text }
    ensures core { (x : ℕ) → is_free core_map.new x ≡ (is_free core_map.old x || leaving_units texts.old text x) }
{
    match text {
        Some(t) => unload_one(texts, core_map, t),
        None => {}
    }
}

impl Images {
    /// Brings an image into core as one piece with its text, the text first, if that isn't there. The answer is where the
    /// piece begins. Lions' Commentary, `sched` in `slp.c`.
    ///
    /// # Errors
    ///
    /// `NoCore`: exactly where core has no room. Nothing has changed then.
    pub fn swap_in(&mut self, s: Slot) -> Result<u16, NoCore>
        requires { IsOut self.old.kept s }
        ensures place { MatchResult result (λ at. core_fit self.old.kept (clicks_to_load self.old.kept s) ≡ Some at)
            (λ _. core_fit self.old.kept (clicks_to_load self.old.kept s) ≡ None) }
        ensures kept { self.new.kept ≡ swapped_in self.old.kept s (core_fit self.old.kept (clicks_to_load self.old.kept s)) }
        ensures stays { IfErr result (λ _. self.new ≡ self.old) }
    {
        let row = row_of(&self.rows, s as usize);
        let block = block_of(row);
        let clicks = clicks_of(row);
        let need = need_of(&self.texts, row.text);
        let _ = self.swap_map.count();
        let at = match self.core_map.take(need + clicks) {
            Some(at) => at,
            None => return Err(NoCore),
        };
        load_text(&mut self.memory, &mut self.texts, self.core, row.text, at);
        let to = at + need;
        copy_image(&mut self.memory, self.core, block, to, clicks);
        self.swap_map.give(block, blocks_of(clicks));
        set_place(&mut self.rows, s as usize, Place::Core(to));
        Ok(at)
    }

    /// Takes an image out of core, to a place in the swap area, which is the answer. Its text stays in core for others who
    /// use it there. Lions' Commentary, `xswap` in `text.c`.
    ///
    /// # Errors
    ///
    /// `NoSwap`: exactly where the swap area has no room. Nothing has changed then.
    pub fn swap_out(&mut self, s: Slot) -> Result<u16, NoSwap>
        requires { IsLoaded self.old.kept s }
        ensures block { MatchResult result (λ block. swap_fit self.old.kept (blocks (clicks_of (area_of self.old.kept s))) ≡ Some block)
            (λ _. swap_fit self.old.kept (blocks (clicks_of (area_of self.old.kept s))) ≡ None) }
        ensures kept { self.new.kept ≡ swapped_out self.old.kept s (swap_fit self.old.kept (blocks (clicks_of (area_of self.old.kept s)))) }
        ensures stays { IfErr result (λ _. self.new ≡ self.old) }
    {
        let row = row_of(&self.rows, s as usize);
        let clicks = clicks_of(row);
        let from = place_click(self.core, place_of(row));
        let _ = self.core_map.count();
        let _ = self.swap_map.count();
        let block = match self.swap_map.take(blocks_of(clicks)) {
            Some(block) => block,
            None => return Err(NoSwap),
        };
        let to = block_click(self.core, block);
        self.memory.copy(from, to, clicks);
        give_back(&mut self.core_map, &mut self.swap_map, row);
        let _ = self.core_map.count();
        unload_text(&mut self.texts, &mut self.core_map, row.text);
        set_place(&mut self.rows, s as usize, Place::Swap(block));
        Ok(block)
    }
}
