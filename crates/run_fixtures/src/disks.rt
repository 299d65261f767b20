//! Bytes of disks: the disk of `examples/hi`.
use std::alloc::{AllocError, Global};

/// Bytes and the place where they stand.
pub type Piece<'a> = (usize, &'a [u8]);

/// Each byte of the image of `examples/hi` that isn't 0, but for the text of `/etc/init`: the super-block; inodes 1 to 7; the
/// entries of the four directories; the header of `/etc/init`.
const HI_DISK: [Piece<'static>; 14] = [
    (512, b"\x3c\x00\xa0\x0f"),
    (1024, b"\xed\xc1\x05\x00\x00\x00\x50\x00\x3e"),
    (1056, b"\xed\xc1\x02\x00\x00\x00\x30\x00\x3f"),
    (1088, b"\xed\xc1\x02\x00\x00\x00\x40\x00\x40"),
    (1120, b"\xed\xc1\x02\x00\x00\x00\x20\x00\x41"),
    (1152, b"\xb6\xa1\x01"),
    (1184, b"\xb6\xa1\x01\x00\x00\x00\x00\x00\x02\x08"),
    (1216, b"\xed\x81\x01\x00\x00\x00\x30\x00\x42"),
    (31744, b"\x01\x00."),
    (
        31760,
        b"\x01\x00..\0\0\0\0\0\0\0\0\0\0\0\0\x02\x00etc\0\0\0\0\0\0\0\0\0\0\0\x03\x00dev\0\0\0\0\0\0\0\0\0\0\0\x04\x00u",
    ),
    (
        32256,
        b"\x02\x00.\0\0\0\0\0\0\0\0\0\0\0\0\0\x01\x00..\0\0\0\0\0\0\0\0\0\0\0\0\x07\x00init",
    ),
    (
        32768,
        b"\x03\x00.\0\0\0\0\0\0\0\0\0\0\0\0\0\x01\x00..\0\0\0\0\0\0\0\0\0\0\0\0\x05\x00tty8\0\0\0\0\0\0\0\0\0\0\x06\x00null",
    ),
    (33280, b"\x04\x00.\0\0\0\0\0\0\0\0\0\0\0\0\0\x01\x00.."),
    (33792, b"\x07\x01\x20"),
];

/// The bytes of that image.
pub const HI_BYTES: usize = 34304;

/// Where the text of `/etc/init` stands on that disk, after its header of 16 bytes.
pub const TEXT: usize = 33808;

/// The program `hi`: it opens `/dev/tty8`, writes `hi` and a new line, and exits.
const HI: &[u8] =
    b"\x05\x89\x12\x00\x01\x00\x04\x89\x1c\x00\x03\x00\xc0\x15\x00\x00\x01\x89/dev/tty8\0hi\n\0";

/// Puts each of these pieces at its place, where the bytes have it.
pub fn put(bytes: &mut [u8], pieces: &[Piece<'_>]) {
    for (at, piece) in pieces {
        for (i, byte) in piece.iter().enumerate() {
            if let Some(place) = bytes.get_mut(at.wrapping_add(i)) {
                *place = *byte;
            }
        }
    }
}

fn stands(bytes: &[u8], at: usize, piece: &[u8]) -> bool {
    match bytes.get(at..) {
        Some(rest) => rest.starts_with(piece),
        None => false,
    }
}

/// Whether the bytes have each of these pieces at its place.
pub fn have(bytes: &[u8], pieces: &[Piece<'_>]) -> bool {
    for (at, piece) in pieces {
        if !stands(bytes, *at, piece) {
            return false;
        }
    }
    true
}

/// Whether the bytes are so many, and the first of these.
pub fn is_front(bytes: &[u8], all: &[u8], count: usize) -> bool {
    bytes.len() == count && all.starts_with(bytes)
}

/// The image of `examples/hi`, filled up with zeros to this number of bytes, and changed by these pieces.
pub fn hi_image(alloc: Global, bytes: usize, pieces: &[Piece<'_>]) -> Result<Vec<u8>, AllocError> {
    let mut image = vec![in alloc; 0; bytes]?;
    put(&mut image, &HI_DISK);
    put(&mut image, &[(TEXT, HI)]);
    put(&mut image, pieces);
    Ok(image)
}
