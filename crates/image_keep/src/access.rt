//! Loads and stores of one image, where it stands.
ghost use Rattle.std.specs.Prelude.{◌≡◌, ◌≢◌, ◌-◌, ◌+◌, ◌*◌, ◌%◌, ◌≤◌, ◌↔◌, ℕ, Ok, Some, IsTrue, length, ◌++◌, slice_set};
ghost use Rattle.v6_base.specs.Image.{named, named_by, nseg};
ghost use Rattle.v6_base.specs.Access.{load_byte, load_word, store_byte, store_word, byte_at, with_byte, image_after, answer_of};
ghost use Rattle.v6_base.specs.Words.{IsWithin, IsStorable, next_byte, with_word};
ghost use Rattle.image_keep.specs.Kept.{HasImage, IsKept, image_of, with_image};
ghost use Rattle.text_tab.specs.Table.{IsUsed, row_at as text_row};
ghost use Rattle.image_keep.specs.Lent.{outside_of};
ghost use Rattle.image_keep.specs.Starts.{text_clicks_in, row_start, start_in, AreStarts, IsLow, IsThere, start_of};

use crate::images::Images;
use crate::parts::{block_click, place_click, place_of, row_of};
use crate::starts::Starts;
use text_tab::{TextId, TextRow, Texts};
use v6_base::{Named, Slot, Trap};

/// Whether what is named can be written.
#[inline(always)]
pub(crate) fn is_storable(named: Named) -> bool
    ensures { IsTrue result ↔ IsStorable named }
{
    matches!(named, Named::InData(_) | Named::InStack(_))
}

impl Starts {
    /// What an address names.
    #[inline(always)]
    #[tactic(auto, unfolding(v6_base::specs::Image::named_by))]
    pub(crate) fn find(&self, at: u16) -> Named
        ensures named { result ≡ named_by self.now.text_len self.now.data_len (65536 - self.now.stack_start) at }
        ensures within { IsThere self.now result }
        ensures next { at % 2 ≡ 0 → named_by self.now.text_len self.now.data_len (65536 - self.now.stack_start) (at + 1) ≡ next_byte result }
        ensures next_there { at % 2 ≡ 0 → IsThere self.now (next_byte result) }
    {
        let v = at as usize;
        if v < self.text_len {
            return Named::InText(v);
        }
        let i = v.wrapping_sub(self.base);
        if i < self.data_len {
            return Named::InData(i);
        }
        if v >= self.stack_start {
            return Named::InStack(v - self.stack_start);
        }
        Named::Nothing
    }

    /// Where a byte stands that an address names.
    #[inline(always)]
    pub(crate) fn start_of(&self, at: Named) -> usize
        requires { IsLow at }
        ensures { result ≡ start_of self.now at }
    {
        match at {
            Named::InText(i) => self.text + i,
            Named::InData(i) => self.image + i,
            Named::InStack(i) => self.image + self.data_len + i,
            Named::Nothing => 0,
        }
    }
}

/// The clicks of a text, if there is one.
#[inline(always)]
fn clicks_of_text(texts: &Texts, text: Option<TextId>) -> u16
    requires { (t : ℕ) → text ≡ Some t → IsUsed texts.now t }
    ensures { result ≡ text_clicks_in texts.now text }
{
    match text {
        Some(t) => texts.row(t).clicks,
        None => 0,
    }
}

/// Where a text is read: in core, where it is there, and else in its blocks.
#[inline(always)]
fn row_start(core: u16, row: TextRow) -> usize
    requires out { 4000 ≤ row.block }
    requires within { row.loaded ≢ 0 → 1 ≤ row.at }
    ensures { result ≡ row_start core row }
{
    if row.loaded == 0 {
        64 * block_click(core, row.block)
    } else {
        64 * (usize::from(row.at) - 1)
    }
}

/// Where a slot's text is read, if it has one.
#[inline(always)]
fn start_of_text(texts: &Texts, core: u16, text: Option<TextId>) -> usize
    requires used { (t : ℕ) → text ≡ Some t → IsUsed texts.now t }
    requires out { (t : ℕ) → text ≡ Some t → 4000 ≤ (text_row texts.now t).block }
    requires within { (t : ℕ) → text ≡ Some t → (text_row texts.now t).loaded ≢ 0 → 1 ≤ (text_row texts.now t).at }
    ensures { result ≡ start_in texts.now core text }
{
    match text {
        Some(t) => row_start(core, *texts.row(t)),
        None => 0,
    }
}

/// Where an image's parts stand beside so many clicks of core, by where its text is read and its data begin, and by its sizes
/// in clicks.
#[inline(always)]
fn starts_at(core: u16, text: usize, image: usize, t: u16, d: u16, stack: u16) -> Starts
    requires low_text { text ≤ 1000000 }
    requires low_image { image ≤ 1000000 }
    requires segments { nseg t + nseg d + nseg stack ≤ 8 }
    ensures text { result.text ≡ text }
    ensures image { result.image ≡ image }
    ensures text_len { result.text_len ≡ 64 * t }
    ensures data_len { result.data_len ≡ 64 * d }
    ensures stack_start { result.stack_start + 64 * stack ≡ 65536 }
    ensures core { result.core ≡ 64 * core }
{
    Starts {
        text,
        text_len: 64 * usize::from(t),
        image,
        base: 8192 * ((usize::from(t) + 127) / 128),
        data_len: 64 * usize::from(d),
        stack_start: 65536 - 64 * usize::from(stack),
        core: 64 * usize::from(core),
    }
}

impl Images {
    /// Where the parts of a slot's image stand.
    #[inline(always)]
    pub(crate) fn starts(&self, s: Slot) -> Starts
        requires { HasImage self.now.kept s }
        ensures starts { AreStarts self.now.kept s result }
        ensures holds { IsKept self.now.kept }
    {
        self.memory.see_bytes();
        let row = row_of(&self.rows, s as usize);
        let text = start_of_text(&self.texts, self.core, row.text);
        let image = 64 * place_click(self.core, place_of(row)) + 1024;
        let clicks = clicks_of_text(&self.texts, row.text);
        starts_at(
            self.core,
            text,
            image,
            clicks,
            row.data_size,
            row.stack_size,
        )
    }

    /// What an address of a slot's image names.
    #[inline(always)]
    pub(crate) fn find(&self, s: usize, starts: &Starts, at: u16) -> Named
        requires { AreStarts self.now.kept s starts.now }
        ensures named { result ≡ named (image_of self.now.kept s) at }
        ensures within { IsWithin (image_of self.now.kept s) result }
        ensures next { at % 2 ≡ 0 → named (image_of self.now.kept s) (at + 1) ≡ next_byte result }
        ensures next_within { at % 2 ≡ 0 → IsWithin (image_of self.now.kept s) (next_byte result) }
    {
        let _ = &self.memory;
        starts.find(at)
    }

    /// The byte that is named.
    #[inline(always)]
    fn byte_of(&self, s: usize, starts: &Starts, at: Named) -> u8
        requires starts { AreStarts self.now.kept s starts.now }
        requires within { IsWithin (image_of self.now.kept s) at }
        requires some { at ≢ Named.Nothing }
        ensures { byte_at (image_of self.now.kept s) at ≡ Ok result }
    {
        self.memory.byte(starts.start_of(at))
    }

    /// The word whose first byte is named, at an even address.
    #[inline(always)]
    fn word_of(&self, s: usize, starts: &Starts, at: Named) -> u16
        requires starts { AreStarts self.now.kept s starts.now }
        requires within { IsWithin (image_of self.now.kept s) at }
        requires next { IsWithin (image_of self.now.kept s) (next_byte at) }
        requires some { at ≢ Named.Nothing }
        ensures { (low high : ℕ) × (byte_at (image_of self.now.kept s) at ≡ Ok low)
            × (byte_at (image_of self.now.kept s) (next_byte at) ≡ Ok high) × (result ≡ low + 256 * high) }
    {
        self.memory.word(starts.start_of(at))
    }

    /// Writes a byte that is named.
    #[inline(always)]
    pub(crate) fn put_byte(&mut self, s: usize, starts: &Starts, at: Named, value: u8)
        requires starts { AreStarts self.old.kept s starts.now }
        requires within { IsWithin (image_of self.old.kept s) at }
        requires storable { IsStorable at }
        ensures kept { self.new.kept
            ≡ with_image self.old.kept s
            (image_after (image_of self.old.kept s) (with_byte (image_of self.old.kept s) at value)) }
        ensures bytes { self.new.core ++ self.new.swap ≡ slice_set (self.old.core ++ self.old.swap) (start_of starts.now at) value }
        ensures core { length self.new.core ≡ length self.old.core }
        ensures starts { AreStarts self.new.kept s starts.now }
        ensures outside { outside_of self.new s ≡ outside_of self.old s }
    {
        self.memory.set(starts.start_of(at), value);
    }

    /// Writes a word whose first byte is named, at an even address.
    #[inline(always)]
    fn put_word(&mut self, s: usize, starts: &Starts, at: Named, value: u16)
        requires starts { AreStarts self.old.kept s starts.now }
        requires within { IsWithin (image_of self.old.kept s) at }
        requires next { IsWithin (image_of self.old.kept s) (next_byte at) }
        requires storable { IsStorable at }
        ensures kept { self.new.kept
            ≡ with_image self.old.kept s
            (image_after (image_of self.old.kept s) (with_word (image_of self.old.kept s) at value)) }
        ensures starts { AreStarts self.new.kept s starts.now }
        ensures outside { outside_of self.new s ≡ outside_of self.old s }
    {
        self.memory.set_word(starts.start_of(at), value);
    }

    /// The byte at an address of a slot's image.
    #[inline(always)]
    pub(crate) fn load_byte(&self, s: usize, starts: &Starts, at: u16) -> Result<u8, Trap>
        requires { AreStarts self.now.kept s starts.now }
        ensures { result ≡ load_byte (image_of self.now.kept s) at }
    {
        match self.find(s, starts, at) {
            Named::Nothing => Err(Trap::Segment),
            named => Ok(self.byte_of(s, starts, named)),
        }
    }

    /// The word at an address of a slot's image.
    #[inline(always)]
    pub(crate) fn load_word(&self, s: usize, starts: &Starts, at: u16) -> Result<u16, Trap>
        requires { AreStarts self.now.kept s starts.now }
        ensures { result ≡ load_word (image_of self.now.kept s) at }
    {
        if at % 2 == 1 {
            return Err(Trap::Odd);
        }
        match self.find(s, starts, at) {
            Named::Nothing => Err(Trap::Segment),
            named => Ok(self.word_of(s, starts, named)),
        }
    }

    /// Writes a byte of a slot's image.
    #[inline(always)]
    pub(crate) fn store_byte(
        &mut self,
        s: usize,
        starts: &Starts,
        at: u16,
        value: u8,
    ) -> Result<(), Trap>
        requires { AreStarts self.old.kept s starts.now }
        ensures answer { result ≡ answer_of (store_byte (image_of self.old.kept s) at value) }
        ensures kept { self.new.kept
            ≡ with_image self.old.kept s
            (image_after (image_of self.old.kept s) (store_byte (image_of self.old.kept s) at value)) }
        ensures starts { AreStarts self.new.kept s starts.now }
        ensures outside { outside_of self.new s ≡ outside_of self.old s }
    {
        let named = self.find(s, starts, at);
        if !is_storable(named) {
            return Err(Trap::Segment);
        }
        self.put_byte(s, starts, named, value);
        Ok(())
    }

    /// Writes a word of a slot's image.
    #[inline(always)]
    pub(crate) fn store_word(
        &mut self,
        s: usize,
        starts: &Starts,
        at: u16,
        value: u16,
    ) -> Result<(), Trap>
        requires { AreStarts self.old.kept s starts.now }
        ensures answer { result ≡ answer_of (store_word (image_of self.old.kept s) at value) }
        ensures kept { self.new.kept
            ≡ with_image self.old.kept s
            (image_after (image_of self.old.kept s) (store_word (image_of self.old.kept s) at value)) }
        ensures starts { AreStarts self.new.kept s starts.now }
        ensures outside { outside_of self.new s ≡ outside_of self.old s }
    {
        if at % 2 == 1 {
            return Err(Trap::Odd);
        }
        let named = self.find(s, starts, at);
        if !is_storable(named) {
            return Err(Trap::Segment);
        }
        self.put_word(s, starts, named, value);
        Ok(())
    }
}
