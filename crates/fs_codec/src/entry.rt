//! The directory entry: directory(V).
ghost use Rattle.std.specs.Prelude.{◌≡◌};
ghost use Rattle.fs_codec.specs.Fields.{entry_of};

use crate::words::{put_word, word_at};

/// An entry of a directory: directory(V).
#[derive(Clone, Copy, Debug, PartialEq, Eq)]
pub struct DirEntry {
    /// The number of an inode, or 0 in an empty entry.
    pub ino: u16,
    /// Filled up with NULs.
    pub name: [u8; 14],
}

/// The entry that these bytes are.
pub fn read_entry(b: &[u8; 16]) -> DirEntry
    ensures { result ≡ entry_of b.now }
{
    let mut name = [0; 14];
    name.copy_from_slice(&b[2..16]);
    DirEntry {
        ino: word_at(b, 0),
        name,
    }
}

/// Writes the bytes so that they read as this entry.
pub fn write_entry(e: &DirEntry, b: &mut [u8; 16])
    ensures { entry_of b.new ≡ e.now }
{
    put_word(b, 0, e.ino);
    b[2..16].copy_from_slice(&e.name);
}
