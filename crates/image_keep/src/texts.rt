//! The texts that images share.
ghost use Rattle.std.specs.Prelude.{◌≡◌, ◌+◌, ◌*◌, ◌<◌, ◌≤◌, ℕ, ◌||◌, true, false, None, Some, is_none, IsSome, length, slice_set, IfErr};
ghost use Rattle.core_mem.specs.Bytes.{part, over};
ghost use Rattle.map_fit.specs.Free.{is_free, is_within};
ghost use Rattle.text_tab.specs.Table.{row_at as text_row, found, free_entry, new_text as new_row, IsUsed, left, detached};
ghost use Rattle.u_area.specs.Area.{area_bytes, IsStored};
ghost use Rattle.image_keep.specs.declared.memory.TheConstants.{SWAP_BYTES};
ghost use Rattle.image_keep.specs.Line.{line_of};
ghost use Rattle.image_keep.specs.Fields.{AreWritten};
ghost use Rattle.image_keep.specs.Kept.{Shared, Nothing, shared, keeping, bytes_in, text_of, area_of};
ghost use Rattle.image_keep.specs.Maps.{InsideBy};
ghost use Rattle.image_keep.specs.Memory.{row_at, given_text, clicks_in, IsIn, place_at};
ghost use Rattle.image_keep.specs.Places.{blocks, swap_fit};
ghost use Rattle.image_keep.specs.Leaves.{textless_at, textless_line, IsStoredBy, IsLongBy, loaded_text, gone_units};
ghost use Rattle.image_keep.specs.SharedTexts.{AreShared, AreLong, filled, retexted, found_text, FindsText, free_text, row_in, making, with_made_text, with_joined_text, row_of_text, with_left_text};

use crate::images::Images;
use crate::memory::Memory;
use crate::parts::{block_click, place_click, row_of};
use crate::row::{Row, State};
use crate::swapping::unload_text;
use map_fit::Holes;
use text_tab::{Full, Left, TextId, TextRow, Texts};
use u_area::fetch;
use v6_base::{Place, Slot};

/// Why no text is made.
#[derive(Clone, Copy, Debug, PartialEq, Eq)]
pub enum TextRefusal {
    /// Forty texts are there: Lions' Commentary, `panic("out of text")`.
    Full,
    /// There is no room in the swap area: Lions' Commentary, `panic("out of swap space")`.
    NoSwap,
}

/// The blocks that so many clicks take, also where no map has as many.
fn blocks_for(clicks: u16) -> u16
    ensures { result ≡ blocks clicks }
{
    clicks.div_ceil(8)
}

/// Makes an entry for a text, where one is free.
fn attach(texts: &mut Texts, ino: u16, clicks: u16, block: u16) -> TextId
    requires unknown { found texts.old ino ≡ None }
    requires free { is_none (free_entry texts.old) ≡ false }
    ensures first { free_entry texts.old ≡ Some result }
    ensures table { texts.new ≡ slice_set texts.old result (Some (new_row ino clicks block)) }
{
    match texts.attach(ino, clicks, block) {
        Ok(t) => t,
        Err(Full) => unreachable!(),
    }
}

/// The text of a row that has one.
fn text_in(row: Row) -> TextId
    requires { (t : ℕ) × (row.text ≡ Some t) }
    ensures { row.text ≡ Some result }
{
    row.text.unwrap()
}

/// The text of a row in core.
fn loaded_text(row: Row) -> Option<TextId>
    ensures { result ≡ loaded_text row.state row.text }
{
    match row.state {
        State::Alive(Place::Core(_)) => row.text,
        _ => None,
    }
}

/// Puts into the u area at a place that its image has no text.
fn clear_size_at(memory: &mut Memory, core: u16, place: Place)
    requires inside { (n : ℕ) × (16 ≤ n) × IsIn core place n }
    requires stored { IsStored (part (line_of memory.old) (place_at core place) 1024) }
    requires core { length memory.old.core ≡ 64 * core }
    requires swap { length memory.old.swap ≡ SWAP_BYTES }
    ensures line { line_of memory.new
        ≡ over (line_of memory.old) (place_at core place) (area_bytes (textless_at (line_of memory.old) core place)) }
    ensures long { length (area_bytes (textless_at (line_of memory.old) core place)) ≡ 1024 }
    ensures new_core { length memory.new.core ≡ length memory.old.core }
    ensures new_swap { length memory.new.swap ≡ length memory.old.swap }
{
    let at = place_click(core, place);
    let mut bytes = [0; 1024];
    memory.area(at, &mut bytes);
    let mut u = fetch(&bytes);
    u.text_size = 0;
    u.store(&mut bytes);
    memory.put(64 * at, &bytes);
}

/// The image of a row, if it has one, has no text any more, and its u area says so.
fn clear_text_size(memory: &mut Memory, core: u16, row: Row)
    requires inside { InsideBy core row.state (clicks_in row) }
    requires stored { IsStoredBy (line_of memory.old) core row.state }
    requires core { length memory.old.core ≡ 64 * core }
    requires swap { length memory.old.swap ≡ SWAP_BYTES }
    ensures line { line_of memory.new ≡ textless_line (line_of memory.old) core row.state }
    ensures long { IsLongBy (line_of memory.old) core row.state }
    ensures new_core { length memory.new.core ≡ length memory.old.core }
    ensures new_swap { length memory.new.swap ≡ length memory.old.swap }
{
    match row.state {
        State::Alive(place) => clear_size_at(memory, core, place),
        State::Nothing | State::Grave(_) => {}
    }
}

/// A text has one user fewer. With none left, its entry and its blocks are free, unless its file is sticky.
#[tactic(auto, using(crate::proofs::Ended::or_false))]
fn detach(texts: &mut Texts, swap_map: &mut Holes, t: TextId, sticky: bool) -> Left
    requires used { IsUsed texts.old t }
    requires users { 0 < (text_row texts.old t).users }
    requires clicks { 0 < (text_row texts.old t).clicks }
    requires small { (text_row texts.old t).block + blocks (text_row texts.old t).clicks ≤ 65535 }
    requires taken { (x : ℕ) → is_within (text_row texts.old t).block (blocks (text_row texts.old t).clicks) x ≡ true
        → is_free swap_map.old x ≡ false }
    requires room { length swap_map.old < 100 }
    ensures left { result ≡ left (text_row texts.old t) sticky }
    ensures table { texts.new ≡ detached texts.old t sticky }
    ensures swap { (x : ℕ) → is_free swap_map.new x
        ≡ (is_free swap_map.old x || gone_units (left (text_row texts.old t) sticky) (text_row texts.old t) x) }
{
    let row = *texts.row(t);
    let left = texts.detach(t, sticky);
    match left {
        Left::Used | Left::Kept => {}
        Left::Gone => swap_map.give(row.block, blocks_for(row.clicks)),
    }
    left
}

/// Gives a slot a text, or none.
fn give_text(rows: &mut [Row], s: usize, text: Option<TextId>)
    requires { s < length rows.old }
    ensures rows { rows.new ≡ slice_set rows.old s (given_text (row_at rows.old s) text) }
    ensures long { length rows.new ≡ length rows.old }
{
    rows[s].text = text;
}

impl Images {
    /// The text of an inode. `None` exactly where there is none.
    pub fn find_text(&self, ino: u16) -> Option<TextId>
        ensures text { result ≡ found_text self.now.kept ino }
        ensures words { FindsText self.now.kept ino result }
        ensures texts { AreShared self.now.kept }
        ensures sized { AreLong self.now.kept }
    {
        self.texts.find(ino)
    }

    /// What is known of a text.
    pub fn text_row(&self, t: TextId) -> &TextRow
        requires { IsSome (shared self.now.kept t) }
        ensures { result.now ≡ row_in (shared self.now.kept t) }
    {
        self.texts.row(t)
    }

    /// Makes a text of so many clicks for the file of an inode, in the lowest free entry, and finds blocks of the swap
    /// area for it, by first fit. Its bytes are zeros until they are put there. The slot is its first user. Lions'
    /// Commentary, `xalloc` in `text.c`.
    ///
    /// # Errors
    ///
    /// `Full`: exactly where forty texts are there. `NoSwap`: exactly where there are fewer, and the swap area has no
    /// room. Nothing has changed then.
    pub fn new_text(&mut self, s: Slot, ino: u16, clicks: u16) -> Result<TextId, TextRefusal>
        requires slot { s < 50 }
        requires nothing { keeping self.old.kept s ≡ Nothing }
        requires no_text { text_of self.old.kept s ≡ None }
        requires unknown { found_text self.old.kept ino ≡ None }
        requires some { 0 < clicks }
        ensures text { result ≡ making (free_text self.old.kept) (swap_fit self.old.kept (blocks clicks)) }
        ensures kept { self.new.kept
            ≡ with_made_text self.old.kept s ino clicks (free_text self.old.kept) (swap_fit self.old.kept (blocks clicks)) }
        ensures stays { IfErr result (λ _. self.new ≡ self.old) }
    {
        if self.texts.is_full() {
            return Err(TextRefusal::Full);
        }
        let block = match self.swap_map.take(blocks_for(clicks)) {
            Some(block) => block,
            None => return Err(TextRefusal::NoSwap),
        };
        let at = block_click(self.core, block);
        self.memory.clear(at, clicks);
        let t = attach(&mut self.texts, ino, clicks, block);
        give_text(&mut self.rows, s as usize, Some(t));
        Ok(t)
    }

    /// A slot without a place shares a text that is there: it has one user more. Lions' Commentary, `xalloc` in `text.c`.
    pub fn join_text(&mut self, s: Slot, t: TextId)
        requires slot { s < 50 }
        requires nothing { keeping self.old.kept s ≡ Nothing }
        requires no_text { text_of self.old.kept s ≡ None }
        requires used { IsSome (shared self.old.kept t) }
        ensures { self.new.kept ≡ with_joined_text self.old.kept s t }
    {
        self.texts.join(t);
        give_text(&mut self.rows, s as usize, Some(t));
    }

    /// A slot leaves its text. One fewer uses it, and the last to leave core gives its clicks back. With no user left the
    /// text stays where its file is sticky; else its entry and its blocks are free. The image of the slot, if it has one,
    /// has no text then, and its u area says so. Lions' Commentary, `xfree` in `text.c`.
    pub fn leave_text(&mut self, s: Slot, sticky: bool) -> Left
        requires { (t : ℕ) × (text_of self.old.kept s ≡ Some t) }
        ensures left { result ≡ left (row_of_text self.old.kept (text_of self.old.kept s)) sticky }
        ensures kept { self.new.kept ≡ with_left_text self.old.kept s sticky (text_of self.old.kept s) }
        ensures written { AreWritten self.old self.new s 0 (area_bytes (record (area_of self.old.kept s) { text_size = 0 })) }
    {
        let row = row_of(&self.rows, s as usize);
        let t = text_in(row);
        clear_text_size(&mut self.memory, self.core, row);
        give_text(&mut self.rows, s as usize, None);
        let _ = self.core_map.count();
        let _ = self.swap_map.count();
        unload_text(&mut self.texts, &mut self.core_map, loaded_text(row));
        detach(&mut self.texts, &mut self.swap_map, t, sticky)
    }

    /// Puts bytes into a text that is not in core. All who share it see them.
    pub fn text_bytes(&mut self, t: TextId, at: u32, bytes: &[u8])
        requires { (x : Shared) × (shared self.old.kept t ≡ Some x) × (x.row.loaded ≡ 0) × (at + length bytes.now ≤ 64 * x.row.clicks) }
        ensures texts { self.new.kept.texts ≡ slice_set self.old.kept.texts t (filled at bytes.now (shared self.old.kept t)) }
        ensures slots { (s : ℕ)
            → keeping self.new.kept s
            ≡ retexted t (bytes_in (filled at bytes.now (shared self.old.kept t))) (text_of self.old.kept s)
            (keeping self.old.kept s) }
        ensures users { self.new.kept.users ≡ self.old.kept.users }
        ensures core { self.new.kept.core ≡ self.old.kept.core }
    {
        let row = *self.texts.row(t);
        let first = block_click(self.core, row.block);
        self.memory.put(64 * first + at as usize, bytes);
    }
}
