//! The numbers that words write.
ghost use Rattle.std.specs.Prelude.{◌≡◌, false, MatchOption};
ghost use Rattle.std.specs.List.{list_all};
ghost use Rattle.std.specs.Char.{is_ascii_digit};
ghost use Rattle.log_text.specs.inside.Reading.{IsDigits, number_of, signed_of, negated, not_negated};

fn all_digits(word: &[u8]) -> bool
    ensures { result ≡ list_all is_ascii_digit word.now }
{
    word.iter().all(|byte| byte.is_ascii_digit())
}

/// A word of decimal digits alone, as text.
fn digits(word: &[u8]) -> Option<&str>
    ensures { MatchOption result (list_all is_ascii_digit word.now ≡ false) (IsDigits word.now) }
{
    if all_digits(word) {
        str::from_utf8(word).ok()
    } else {
        None
    }
}

/// The number of at most 8 bits that digits write.
pub(crate) fn read_u8(word: &[u8]) -> Option<u8>
    ensures { result ≡ number_of 8 word.now }
{
    digits(word)?.parse().ok()
}

/// The number of at most 16 bits that digits write.
pub(crate) fn read_u16(word: &[u8]) -> Option<u16>
    ensures { result ≡ number_of 16 word.now }
{
    digits(word)?.parse().ok()
}

/// The number of at most 32 bits that digits write.
pub(crate) fn read_u32(word: &[u8]) -> Option<u32>
    ensures { result ≡ number_of 32 word.now }
{
    digits(word)?.parse().ok()
}

fn negated(magnitude: u8) -> Option<i8>
    ensures { result ≡ negated magnitude }
{
    if magnitude <= 128 {
        Some(-i16::from(magnitude) as i8)
    } else {
        None
    }
}

fn not_negated(magnitude: u8) -> Option<i8>
    ensures { result ≡ not_negated magnitude }
{
    if magnitude < 128 {
        Some(magnitude as i8)
    } else {
        None
    }
}

/// The number from -128 to 127 that digits write, with a minus sign before them where it is negative.
pub(crate) fn read_i8(word: &[u8]) -> Option<i8>
    ensures { result ≡ signed_of word.now }
{
    match word.strip_prefix(b"-") {
        Some(magnitude) => negated(read_u8(magnitude)?),
        None => not_negated(read_u8(word)?),
    }
}
