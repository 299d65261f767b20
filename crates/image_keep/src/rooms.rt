//! Whether core has room.
ghost use Rattle.std.specs.Prelude.{◌≡◌, ◌<◌, ℕ, List, true, is_some};
ghost use Rattle.map_fit.specs.Fit.{Range, first_fit};
ghost use Rattle.map_fit.specs.Free.{IsMap};
ghost use Rattle.image_keep.specs.Places.{core_fit};

use crate::images::Images;
use map_fit::Holes;

/// Whether so many units are free in one piece.
fn is_room_in(map: &Holes, n: u16) -> bool
    ensures some { 0 < n → (taken : List Range) (first last : ℕ) → IsMap map.now taken first last
        → result ≡ is_some (first_fit taken first last n) }
    ensures none { n ≡ 0 → result ≡ true }
{
    if n == 0 {
        return true;
    }
    map.find(n).is_some()
}

impl Images {
    /// Whether so many clicks of core are free in one piece.
    pub fn has_room(&self, clicks: u16) -> bool
        ensures { result ≡ is_some (core_fit self.now.kept clicks) }
    {
        is_room_in(&self.core_map, clicks)
    }
}
