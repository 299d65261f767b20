//! The words of a line.
ghost use Rattle.std.specs.Prelude.{◌≡◌};
ghost use Rattle.std.specs.Str.{bytes_eq};
ghost use Rattle.log_text.specs.inside.Reading.{word_at, words_of};

/// The word of a line at this place, the first being 0, and an empty one where the line has fewer.
pub(crate) fn word(line: &[u8], place: usize) -> &[u8]
    ensures { result.now ≡ word_at (words_of line.now) place }
{
    line.split(|byte| *byte == b' ').nth(place).unwrap_or(&[])
}

/// Whether a word is this one.
pub(crate) fn is(word: &[u8], other: &[u8]) -> bool
    ensures { result ≡ bytes_eq word.now other.now }
{
    word == other
}
