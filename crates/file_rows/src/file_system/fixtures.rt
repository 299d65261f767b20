//! What the rows share: bytes and words that are put into an image, and looked for in one.

/// Bytes and the place where they stand.
pub type Piece<'a> = (usize, &'a [u8]);

/// A place and the word that stands there.
pub type Word = (usize, u16);

/// The bytes of twenty blocks, which most of the small disks have.
pub const TWENTY_BLOCKS: usize = 10_240;

/// Puts each piece at its place, where there is one.
pub fn put(bytes: &mut [u8], pieces: &[Piece<'_>]) {
    for (at, piece) in pieces {
        for (i, byte) in piece.iter().enumerate() {
            if let Some(place) = bytes.get_mut(at.wrapping_add(i)) {
                *place = *byte;
            }
        }
    }
}

/// Puts each word at its place, its low byte first.
pub fn put_words(bytes: &mut [u8], words: &[Word]) {
    for (at, word) in words {
        put(bytes, &[(*at, word.to_le_bytes().as_slice())]);
    }
}

/// A disk of twenty blocks with these words, of which the later ones count.
pub fn image_of(words: &[Word], changed: &[Word]) -> [u8; TWENTY_BLOCKS] {
    let mut bytes = [0; TWENTY_BLOCKS];
    put_words(&mut bytes, words);
    put_words(&mut bytes, changed);
    bytes
}

fn stands(bytes: &[u8], at: usize, piece: &[u8]) -> bool {
    match bytes.get(at..) {
        Some(rest) => rest.starts_with(piece),
        None => false,
    }
}

/// Whether the bytes have each of these pieces at its place.
pub fn have(bytes: &[u8], pieces: &[Piece<'_>]) -> bool {
    for (at, piece) in pieces {
        if !stands(bytes, *at, piece) {
            return false;
        }
    }
    true
}

/// Whether the bytes have each of these words at its place.
pub fn have_words(bytes: &[u8], words: &[Word]) -> bool {
    for (at, word) in words {
        if !stands(bytes, *at, word.to_le_bytes().as_slice()) {
            return false;
        }
    }
    true
}
