//! Where images are placed: first fit, core before the swap area. `malloc` in Lions' Commentary.
ghost use Rattle.std.specs.Prelude.{◌≡◌, ◌<◌, ◌≤◌, ◌&&◌, not, false, ℕ, List, None, Some, MatchOption, if◌then◌else◌, length};
ghost use Rattle.std.specs.Option.{option_map, option_or};
ghost use Rattle.map_fit.specs.Fit.{Range, first_fit};
ghost use Rattle.map_fit.specs.Free.{IsMap, is_free, is_within};
ghost use Rattle.text_tab.specs.Table.{IsUsed};
ghost use Rattle.image_keep.specs.Finding.{may_stand, found_core, found_swap};
ghost use Rattle.image_keep.specs.Places.{blocks};

use crate::parts::blocks_of;
use map_fit::Holes;
use text_tab::{TextId, Texts};
use v6_base::Place;

/// Whether an image may stand in core: it has no text, or one that is there.
pub(crate) fn may_stand(texts: &Texts, text: Option<TextId>) -> bool
    requires { (t : ℕ) → text ≡ Some t → IsUsed texts.now t }
    ensures { result ≡ may_stand texts.now text }
{
    match text {
        Some(t) => texts.row(t).loaded != 0,
        None => true,
    }
}

/// Takes so many clicks of core in one piece, where an image may stand there.
fn take_core(core_map: &mut Holes, may_stand: bool, clicks: u16) -> Option<u16>
    requires { 0 < clicks }
    ensures fit { (taken : List Range) (first last : ℕ) → IsMap core_map.old taken first last
        → result ≡ (if may_stand then first_fit taken first last clicks else None) }
    ensures left { MatchOption result (core_map.new ≡ core_map.old)
        (λ a. (x : ℕ) → is_free core_map.new x ≡ (is_free core_map.old x && not (is_within a clicks x))) }
    ensures few { length core_map.new ≤ length core_map.old }
{
    if may_stand {
        core_map.take(clicks)
    } else {
        None
    }
}

/// Takes so many blocks of the swap area in one piece.
fn take_swap(swap_map: &mut Holes, count: u16) -> Option<Place>
    requires { 0 < count }
    ensures fit { (taken : List Range) (first last : ℕ) → IsMap swap_map.old taken first last
        → result ≡ option_map Place.Swap (first_fit taken first last count) }
    ensures left { (clicks : ℕ) → count ≡ blocks clicks → (x : ℕ)
        → is_free swap_map.new x ≡ (is_free swap_map.old x && not (found_swap result clicks x)) }
    ensures few { length swap_map.new ≤ length swap_map.old }
    ensures core { (clicks x : ℕ) → found_core result clicks x ≡ false }
    ensures none { result ≡ None → swap_map.new ≡ swap_map.old }
{
    match swap_map.take(count) {
        Some(block) => Some(Place::Swap(block)),
        None => None,
    }
}

/// Takes a place of so many clicks: core where an image may stand there and a start is found, else the swap area.
pub(crate) fn take_place(
    core_map: &mut Holes,
    swap_map: &mut Holes,
    may_stand: bool,
    clicks: u16,
) -> Option<Place>
    requires some { 0 < clicks }
    requires few { clicks ≤ 60000 }
    ensures fit { (core_taken swap_taken : List Range) (core : ℕ) → IsMap core_map.old core_taken 1 core
        → IsMap swap_map.old swap_taken 4000 4871
        → result ≡ option_or (if may_stand then option_map Place.Core (first_fit core_taken 1 core clicks) else None)
        (option_map Place.Swap (first_fit swap_taken 4000 4871 (blocks clicks))) }
    ensures core { (x : ℕ) → is_free core_map.new x ≡ (is_free core_map.old x && not (found_core result clicks x)) }
    ensures swap { (x : ℕ) → is_free swap_map.new x ≡ (is_free swap_map.old x && not (found_swap result clicks x)) }
    ensures few_core { length core_map.new ≤ length core_map.old }
    ensures few_swap { length swap_map.new ≤ length swap_map.old }
    ensures no_core { result ≡ None → core_map.new ≡ core_map.old }
    ensures no_swap { result ≡ None → swap_map.new ≡ swap_map.old }
{
    match take_core(core_map, may_stand, clicks) {
        Some(click) => Some(Place::Core(click)),
        None => take_swap(swap_map, blocks_of(clicks)),
    }
}
