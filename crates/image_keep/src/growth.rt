//! The growth of one image: `expand` in Lions' Commentary, `slp.c`.
ghost use Rattle.std.specs.Prelude.{◌≡◌, ◌≢◌, ◌⊎◌, ◌||◌, ◌+◌, ◌*◌, ◌<◌, ◌≤◌, ℕ, true, false, None, Some, IfOk, IfErr, MatchResult, length, replicate};
ghost use Rattle.v6_base.specs.Image.{nseg};
ghost use Rattle.core_mem.specs.Bytes.{part, over};
ghost use Rattle.map_fit.specs.Free.{is_free, is_within};
ghost use Rattle.text_tab.specs.Table.{row_at as text_row, IsUsed};
ghost use Rattle.u_area.specs.Area.{area_bytes, IsSized};
ghost use Rattle.image_keep.specs.Line.{line_of};
ghost use Rattle.image_keep.specs.Fields.{AreLaid, laid_bytes};
ghost use Rattle.image_keep.specs.Kept.{HasImage, place_of, area_of, image_of, clicks_of};
ghost use Rattle.image_keep.specs.Places.{placed, with_image_at};
ghost use Rattle.image_keep.specs.Growth.{area_resized, image_resized, expanded};
ghost use Rattle.image_keep.specs.Memory.{clicks_in, IsIn};
ghost use Rattle.image_keep.specs.Moves.{moved_entries, moving_units, with_image_moved};
ghost use Rattle.image_keep.specs.Resized.{IsLess, resized_bytes, sized_row, core_tail, swap_tail};

use crate::finding::{may_stand, take_place};
use crate::images::{Images, NoSwap};
use crate::memory::Memory;
use crate::parts::{blocks_of, clicks_of, give_back, place_click, place_of, row_of, set_row};
use crate::row::{Row, State};
use crate::swapping::unload_text;
use map_fit::Holes;
use text_tab::{TextId, Texts};
use u_area::UArea;
use v6_base::{Place, Slot};

/// The lesser of two sizes.
fn lesser(a: u16, b: u16) -> u16
    ensures { IsLess result a b }
{
    if a < b { a } else { b }
}

/// Copies clicks to others, if there are any.
#[tactic(auto, using(crate::proofs::Overwriting::copied_none))]
fn copy_some(memory: &mut Memory, from: usize, to: usize, n: u16)
    requires from { (64 * (from + n) ≤ length memory.old.core) ⊎ (length memory.old.core ≤ 64 * from) }
    requires to { (64 * (to + n) ≤ length memory.old.core) ⊎ (length memory.old.core ≤ 64 * to) }
    requires from_inside { 64 * (from + n) ≤ length (line_of memory.old) }
    requires to_inside { 64 * (to + n) ≤ length (line_of memory.old) }
    ensures bytes { line_of memory.new ≡ over (line_of memory.old) (64 * to) (part (line_of memory.old) (64 * from) (64 * n)) }
    ensures core { length memory.new.core ≡ length memory.old.core }
    ensures swap { length memory.new.swap ≡ length memory.old.swap }
{
    if n > 0 {
        memory.copy(from, to, n);
    }
}

/// Clears clicks, if there are any.
#[tactic(auto, using(crate::proofs::Overwriting::cleared_none))]
fn clear_some(memory: &mut Memory, at: usize, n: u16)
    requires place { (64 * (at + n) ≤ length memory.old.core) ⊎ (length memory.old.core ≤ 64 * at) }
    requires inside { 64 * (at + n) ≤ length (line_of memory.old) }
    ensures bytes { line_of memory.new ≡ over (line_of memory.old) (64 * at) (replicate (64 * n) 0) }
    ensures core { length memory.new.core ≡ length memory.old.core }
    ensures swap { length memory.new.swap ≡ length memory.old.swap }
{
    if n > 0 {
        memory.clear(at, n);
    }
}

/// Lays an image from some clicks on with other sizes and another u area, where it stood or apart from there. Data grow with
/// zeros at their end, and are cut there, the stack at its low end.
pub(crate) fn lay_resized(
    memory: &mut Memory,
    row: Row,
    from: usize,
    to: usize,
    d: u16,
    stack: u16,
    area: &[u8; 1024],
)
    requires sizes { row.data_size + row.stack_size ≤ 1024 }
    requires new_sizes { d + stack ≤ 1024 }
    requires low_from { from ≤ 11000 }
    requires low_to { to ≤ 11000 }
    requires from { (64 * (from + clicks_in row) ≤ length memory.old.core) ⊎ (length memory.old.core ≤ 64 * from) }
    requires to { (64 * (to + (16 + d + stack)) ≤ length memory.old.core) ⊎ (length memory.old.core ≤ 64 * to) }
    requires from_inside { 64 * (from + clicks_in row) ≤ length (line_of memory.old) }
    requires to_inside { 64 * (to + (16 + d + stack)) ≤ length (line_of memory.old) }
    requires apart { (from ≡ to) ⊎ ((from + clicks_in row ≤ to) ⊎ (to + (16 + d + stack) ≤ from)) }
    ensures line { line_of memory.new
        ≡ over (line_of memory.old) (64 * to) (resized_bytes (line_of memory.old) (64 * from) row d stack area.now) }
    ensures core { length memory.new.core ≡ length memory.old.core }
    ensures swap { length memory.new.swap ≡ length memory.old.swap }
{
    let data = lesser(row.data_size, d);
    let end = lesser(row.stack_size, stack);
    memory.copy(from, to, 16 + data);
    let stack_from = from + usize::from(16 + row.data_size + (row.stack_size - end));
    let stack_to = to + usize::from(16 + d + (stack - end));
    copy_some(memory, stack_from, stack_to, end);
    let gap = (d - data) + (stack - end);
    clear_some(memory, to + usize::from(16 + data), gap);
    memory.put(64 * to, area);
}

/// The row of an image with other sizes, at a place.
pub(crate) fn sized_row(row: Row, place: Place, d: u16, stack: u16) -> Row
    ensures { result ≡ sized_row row place d stack }
{
    Row {
        state: State::Alive(place),
        data_size: d,
        stack_size: stack,
        ..row
    }
}

/// A u area with these sizes of data and stack.
fn resized(u: &UArea, d: u16, stack: u16) -> UArea
    ensures { result ≡ area_resized u.now d stack }
{
    let mut u = *u;
    u.data_size = d;
    u.stack_size = stack;
    u
}

/// The same as bytes.
fn sized_bytes(u: &UArea, d: u16, stack: u16) -> [u8; 1024]
    ensures sized { IsSized (area_resized u.now d stack) }
    ensures written { result ≡ area_bytes (area_resized u.now d stack) }
{
    let mut bytes = [0; 1024];
    resized(u, d, stack).store(&mut bytes);
    bytes
}

/// Gives units back, if there are any.
#[tactic(auto, using(crate::proofs::Cutting::none_within))]
fn give_some(map: &mut Holes, at: u16, n: u16)
    requires small { at + n ≤ 65535 }
    requires taken { (x : ℕ) → is_within at n x ≡ true → is_free map.old x ≡ false }
    requires room { length map.old < 100 }
    ensures { (x : ℕ) → is_free map.new x ≡ (is_free map.old x || is_within at n x) }
{
    if n > 0 {
        map.give(at, n);
    }
}

/// Gives back the tail of an image of `n` clicks of which the first `m` stay.
#[tactic(auto, using(crate::proofs::Ended::or_false))]
fn give_tail(core_map: &mut Holes, swap_map: &mut Holes, place: Place, n: u16, m: u16)
    requires less { m ≤ n }
    requires small { n ≤ 2000 }
    requires inside { (core : ℕ) × (core ≤ 3968) × IsIn core place n }
    requires core_taken { (x : ℕ) → core_tail place n m x ≡ true → is_free core_map.old x ≡ false }
    requires swap_taken { (x : ℕ) → swap_tail place n m x ≡ true → is_free swap_map.old x ≡ false }
    requires core_room { length core_map.old < 100 }
    requires swap_room { length swap_map.old < 100 }
    ensures core { (x : ℕ) → is_free core_map.new x ≡ (is_free core_map.old x || core_tail place n m x) }
    ensures swap { (x : ℕ) → is_free swap_map.new x ≡ (is_free swap_map.old x || swap_tail place n m x) }
{
    match place {
        Place::Core(click) => give_some(core_map, click + m, n - m),
        Place::Swap(block) => give_some(
            swap_map,
            block + blocks_of(m),
            blocks_of(n) - blocks_of(m),
        ),
    }
}

/// One user more of a text, if there is one, is in core, where the text is.
fn load_again(texts: &mut Texts, text: Option<TextId>, click: u16)
    requires used { (t : ℕ) → text ≡ Some t → IsUsed texts.old t }
    requires few { (t : ℕ) → text ≡ Some t → (text_row texts.old t).loaded < 65535 }
    ensures { texts.new ≡ moved_entries texts.old text None (Place.Core click) }
{
    match text {
        Some(t) => texts.load(t, click),
        None => {}
    }
}

/// An image comes from nowhere or from the swap area to a place: its text has a user more in core where that is in core.
#[tactic(auto, using(crate::proofs::Recounting::entering))]
pub(crate) fn enter_place(texts: &mut Texts, text: Option<TextId>, from: Option<Place>, to: Place)
    requires out { (c : ℕ) → from ≢ Some (Place.Core c) }
    requires used { (t : ℕ) → text ≡ Some t → IsUsed texts.old t }
    requires few { (t : ℕ) → text ≡ Some t → (text_row texts.old t).loaded < 65535 }
    ensures { texts.new ≡ moved_entries texts.old text from to }
{
    match to {
        Place::Core(click) => load_again(texts, text, click),
        Place::Swap(_) => {}
    }
}

/// An image goes from core to another place: its text has a user fewer in core where that is in the swap area, and the
/// last leaves its clicks free.
#[tactic(auto, using(crate::proofs::Recounting::leaving_core))]
fn leave_place(texts: &mut Texts, core_map: &mut Holes, text: Option<TextId>, click: u16, to: Place)
    requires used { (t : ℕ) → text ≡ Some t → IsUsed texts.old t }
    requires some { (t : ℕ) → text ≡ Some t → 0 < (text_row texts.old t).loaded }
    requires clicks { (t : ℕ) → text ≡ Some t → 0 < (text_row texts.old t).clicks }
    requires small { (t : ℕ) → text ≡ Some t → (text_row texts.old t).at + (text_row texts.old t).clicks ≤ 65535 }
    requires taken { (x : ℕ) → moving_units texts.old text (Some (Place.Core click)) to x ≡ true → is_free core_map.old x ≡ false }
    requires room { length core_map.old < 100 }
    ensures texts { texts.new ≡ moved_entries texts.old text (Some (Place.Core click)) to }
    ensures core { (x : ℕ) → is_free core_map.new x ≡ (is_free core_map.old x || moving_units texts.old text (Some (Place.Core click)) to x) }
{
    match to {
        Place::Core(_) => {}
        Place::Swap(_) => unload_text(texts, core_map, text),
    }
}

/// The text of an image that goes from a place to another goes with it.
#[tactic(auto, using(crate::proofs::Recounting::entering))]
fn move_text(texts: &mut Texts, core_map: &mut Holes, text: Option<TextId>, from: Place, to: Place)
    requires used { (t : ℕ) → text ≡ Some t → IsUsed texts.old t }
    requires few { (t : ℕ) → text ≡ Some t → (text_row texts.old t).loaded < 65535 }
    requires some { (c t : ℕ) → from ≡ Place.Core c → text ≡ Some t → 0 < (text_row texts.old t).loaded }
    requires clicks { (t : ℕ) → text ≡ Some t → 0 < (text_row texts.old t).clicks }
    requires small { (c t : ℕ) → from ≡ Place.Core c → text ≡ Some t → (text_row texts.old t).at + (text_row texts.old t).clicks ≤ 65535 }
    requires taken { (x : ℕ) → moving_units texts.old text (Some from) to x ≡ true → is_free core_map.old x ≡ false }
    requires room { length core_map.old < 100 }
    ensures texts { texts.new ≡ moved_entries texts.old text (Some from) to }
    ensures core { (x : ℕ) → is_free core_map.new x ≡ (is_free core_map.old x || moving_units texts.old text (Some from) to x) }
{
    match from {
        Place::Core(click) => leave_place(texts, core_map, text, click, to),
        Place::Swap(_) => enter_place(texts, text, Some(from), to),
    }
}

impl Images {
    /// The clicks of a slot's image.
    fn clicks(&self, s: Slot) -> u16
        requires { HasImage self.now.kept s }
        ensures { result ≡ clicks_of (area_of self.now.kept s) }
    {
        clicks_of(row_of(&self.rows, s as usize))
    }

    /// Gives a slot's image, in its place, sizes with which it doesn't grow. The answer is its place. What it has no more is
    /// free.
    fn cut(&mut self, s: Slot, d: u16, stack: u16) -> Place
        requires image { HasImage self.old.kept s }
        requires segments { nseg (area_of self.old.kept s).text_size + nseg d + nseg stack ≤ 8 }
        requires small { 16 + d + stack ≤ clicks_of (area_of self.old.kept s) }
        ensures place { place_of self.old.kept s ≡ Some result }
        ensures kept { self.new.kept
            ≡ with_image_at self.old.kept s (area_resized (area_of self.old.kept s) d stack)
            (image_resized (image_of self.old.kept s) d stack) (Some result) }
        ensures written { AreLaid self.old self.new result
            (laid_bytes (area_resized (area_of self.old.kept s) d stack) (image_resized (image_of self.old.kept s) d stack)) }
    {
        let bytes = sized_bytes(&self.area(s), d, stack);
        let row = row_of(&self.rows, s as usize);
        let place = place_of(row);
        let at = place_click(self.core, place);
        lay_resized(&mut self.memory, row, at, at, d, stack, &bytes);
        let _ = self.core_map.count();
        let _ = self.swap_map.count();
        give_tail(
            &mut self.core_map,
            &mut self.swap_map,
            place,
            clicks_of(row),
            16 + d + stack,
        );
        set_row(&mut self.rows, s as usize, sized_row(row, place, d, stack));
        place
    }

    /// Gives a slot's image sizes with which it grows, by first fit beside the place that it has, which is free then. The
    /// answer is where it stands.
    fn grow(&mut self, s: Slot, d: u16, stack: u16) -> Result<Place, NoSwap>
        requires image { HasImage self.old.kept s }
        requires segments { nseg (area_of self.old.kept s).text_size + nseg d + nseg stack ≤ 8 }
        ensures place { MatchResult result (λ place. placed self.old.kept s (16 + d + stack) ≡ Some place)
            (λ _. placed self.old.kept s (16 + d + stack) ≡ None) }
        ensures kept { self.new.kept
            ≡ with_image_moved self.old.kept s (area_resized (area_of self.old.kept s) d stack)
            (image_resized (image_of self.old.kept s) d stack) (placed self.old.kept s (16 + d + stack)) }
        ensures written { IfOk result (λ place. AreLaid self.old self.new place
            (laid_bytes (area_resized (area_of self.old.kept s) d stack) (image_resized (image_of self.old.kept s) d stack))) }
        ensures stays { IfErr result (λ _. self.new ≡ self.old) }
    {
        let bytes = sized_bytes(&self.area(s), d, stack);
        let row = row_of(&self.rows, s as usize);
        let from = place_of(row);
        let stands = may_stand(&self.texts, row.text);
        let _ = self.core_map.count();
        let _ = self.swap_map.count();
        let place = match take_place(
            &mut self.core_map,
            &mut self.swap_map,
            stands,
            16 + d + stack,
        ) {
            Some(place) => place,
            None => return Err(NoSwap),
        };
        let at = place_click(self.core, from);
        let to = place_click(self.core, place);
        lay_resized(&mut self.memory, row, at, to, d, stack, &bytes);
        give_back(&mut self.core_map, &mut self.swap_map, row);
        let _ = self.core_map.count();
        move_text(&mut self.texts, &mut self.core_map, row.text, from, place);
        set_row(&mut self.rows, s as usize, sized_row(row, place, d, stack));
        Ok(place)
    }

    /// Gives a slot's image other sizes of data and of stack, in clicks of 64 bytes, which `Proto::make` allows beside
    /// its text: `expand` in Lions' Commentary, `slp.c`. Data grow with zeros at their end, and are cut there. The stack
    /// grows with zeros at its low end, and is cut there, so that its bytes keep their addresses. The answer is where
    /// the image stands: one that doesn't grow keeps its place, and its tail is free.
    ///
    /// # Errors
    ///
    /// `NoSwap`: exactly where the image grows, and neither core nor the swap area has room beside the place that it
    /// has. Nothing has changed then.
    pub fn resize(&mut self, s: Slot, d: u16, stack: u16) -> Result<Place, NoSwap>
        requires image { HasImage self.old.kept s }
        requires segments { nseg (area_of self.old.kept s).text_size + nseg d + nseg stack ≤ 8 }
        ensures place { MatchResult result
            (λ place. expanded self.old.kept s (16 + d + stack) ≡ Some place)
            (λ _. expanded self.old.kept s (16 + d + stack) ≡ None) }
        ensures kept { self.new.kept
            ≡ with_image_moved self.old.kept s (area_resized (area_of self.old.kept s) d stack)
            (image_resized (image_of self.old.kept s) d stack) (expanded self.old.kept s (16 + d + stack)) }
        ensures written { IfOk result (λ place. AreLaid self.old self.new place
            (laid_bytes (area_resized (area_of self.old.kept s) d stack) (image_resized (image_of self.old.kept s) d stack))) }
        ensures stays { IfErr result (λ _. self.new ≡ self.old) }
    {
        if 16 + d + stack <= self.clicks(s) {
            return Ok(self.cut(s, d, stack));
        }
        self.grow(s, d, stack)
    }
}
