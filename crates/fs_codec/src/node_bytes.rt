//! The inode in its bytes: file system(V).
ghost use Rattle.std.specs.Prelude.{◌≡◌};
ghost use Rattle.fs_codec.specs.Fields.{inode_of, fields_of};

use crate::node::DiskNode;
use crate::words::{long_at, put_byte, put_long, put_word, put_words, read_words, word_at};

/// The inode that these bytes are.
pub fn read_node(b: &[u8; 32]) -> DiskNode
    ensures { fields_of result ≡ inode_of b.now }
{
    let mut addr = [0; 8];
    read_words(b, 8, &mut addr);
    DiskNode {
        mode: word_at(b, 0),
        nlink: b[2],
        uid: b[3],
        gid: b[4],
        size: 65536 * u32::from(b[5]) + u32::from(word_at(b, 6)),
        addr,
        actime: long_at(b, 24),
        modtime: long_at(b, 28),
    }
}

/// Writes the bytes so that they read as this inode.
pub fn write_node(n: &DiskNode, b: &mut [u8; 32])
    ensures { inode_of b.new ≡ fields_of n.now }
{
    put_word(b, 0, n.mode);
    put_byte(b, 2, n.nlink);
    put_byte(b, 3, n.uid);
    put_byte(b, 4, n.gid);
    put_byte(b, 5, (n.size / 65536) as u8);
    put_word(b, 6, (n.size % 65536) as u16);
    put_words(b, 8, &n.addr);
    put_long(b, 24, n.actime);
    put_long(b, 28, n.modtime);
}
