//! What the line of an entry is read back as.
ghost use Rattle.std.specs.Prelude.{◌≡◌, ◌≢◌, ◌↔◌, ◌≤◌, length, Some, IsTrue, MatchOption};
ghost use Rattle.v6_base.specs.declared.entry.Entry.{Entry};
ghost use Rattle.v6_base.specs.LogLine.{entry_line};
ghost use Rattle.pick_rules.specs.Ranges.{IsInRange};
ghost use Rattle.log_text.specs.Held.{IsHeld};

use crate::entries::entry;
use crate::ranges::is_in_range;
use crate::writing::line;
use v6_base::Entry;

/// Whether an entry's numbers are in their ranges, and these bytes are its line.
fn is_line(entry: Entry, bytes: &[u8]) -> bool
    ensures { IsTrue result ↔ IsInRange entry × (bytes.now ≡ entry_line entry) }
{
    is_in_range(entry) && line(&entry).as_slice() == bytes
}

/// The entry whose line these bytes are, without a line feed; there is one at most. The words are read loosely, and the
/// line of the entry that they name is then compared with the bytes.
///
/// None where they are no line of a log: for another word, one too many or too few, other than one space between two, a
/// number outside its range or with a leading zero.
pub fn parse(bytes: &[u8]) -> Option<Entry>
    ensures entry { MatchOption result ((e : Entry) → IsInRange e → bytes.now ≢ entry_line e)
        (λ e. IsInRange e × (bytes.now ≡ entry_line e)) }
    ensures back { (e : Entry) → IsInRange e → bytes.now ≡ entry_line e → result ≡ Some e }
    ensures unique { (e f : Entry) → IsHeld e → IsHeld f → entry_line e ≡ entry_line f → e ≡ f }
    ensures short { (e : Entry) → IsHeld e → length (entry_line e) ≤ 80 }
{
    let found = entry(bytes)?;
    if is_line(found, bytes) {
        Some(found)
    } else {
        None
    }
}
