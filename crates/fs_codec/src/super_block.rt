//! The super-block, block 1 of a disk: file system(V).
ghost use Rattle.std.specs.Prelude.{◌≡◌, drop};
ghost use Rattle.fs_codec.specs.Fields.{super_of};

use crate::words::{long_at, put_byte, put_long, put_word, put_words, read_words, word_at};

/// What block 1 says of the file system: file system(V).
#[derive(Clone, Copy, Debug, PartialEq, Eq)]
pub struct SuperBlock {
    /// The blocks of inodes, 16 inodes to a block, which stand from block 2 on.
    pub i_size: u16,
    /// The first block that is not of the file system.
    pub f_size: u16,
    /// How many numbers of `free` are free blocks.
    pub nfree: u16,
    pub free: [u16; 100],
    /// How many numbers of `inode` are meant as free inodes.
    pub ninode: u16,
    pub inode: [u16; 100],
    /// The four flags have a meaning in core alone.
    pub flock: u8,
    pub ilock: u8,
    pub fmod: u8,
    pub ronly: u8,
    /// The time of the last change, in seconds.
    pub time: u32,
}

/// The super-block that these bytes are.
pub fn read_super(b: &[u8; 512]) -> SuperBlock
    ensures { result ≡ super_of b.now }
{
    let mut free = [0; 100];
    read_words(b, 6, &mut free);
    let mut inode = [0; 100];
    read_words(b, 208, &mut inode);
    SuperBlock {
        i_size: word_at(b, 0),
        f_size: word_at(b, 2),
        nfree: word_at(b, 4),
        free,
        ninode: word_at(b, 206),
        inode,
        flock: b[408],
        ilock: b[409],
        fmod: b[410],
        ronly: b[411],
        time: long_at(b, 412),
    }
}

/// Writes the first 416 bytes, so that they read as this super-block, and leaves the others.
pub fn write_super(s: &SuperBlock, b: &mut [u8; 512])
    ensures spelled { super_of b.new ≡ s.now }
    ensures rest { drop 416 b.new ≡ drop 416 b.old }
{
    put_word(b, 0, s.i_size);
    put_word(b, 2, s.f_size);
    put_word(b, 4, s.nfree);
    put_words(b, 6, &s.free);
    put_word(b, 206, s.ninode);
    put_words(b, 208, &s.inode);
    put_byte(b, 408, s.flock);
    put_byte(b, 409, s.ilock);
    put_byte(b, 410, s.fmod);
    put_byte(b, 411, s.ronly);
    put_long(b, 412, s.time);
}
