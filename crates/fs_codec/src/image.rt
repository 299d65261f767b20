//! Reading a disk image. Bytes past its end are 0.
ghost use Rattle.std.specs.Prelude.{◌≡◌, ◌+◌, ◌<◌, ◌≤◌, ◌^◌, length, slice_index};
ghost use Rattle.fs_codec.specs.Words.{word, words, bytes_from};
ghost use Rattle.fs_codec.specs.Fields.{fields_of};
ghost use Rattle.fs_codec.specs.Disk.{disk_of, head, inode};

use crate::layout::{BLOCK_INODES, BLOCK_SIZE, INODE_SIZE};
use crate::node::DiskNode;
use crate::node_bytes::read_node;
use crate::super_block::{SuperBlock, read_super};
use crate::words::word_at;

/// The byte at a place of an image.
pub fn byte_in(image: &[u8], at: usize) -> u8
    ensures { result ≡ slice_index image.now at }
{
    if at < image.len() { image[at] } else { 0 }
}

/// The word at a place in a block of an image.
pub fn word_in(image: &[u8], block: u16, at: u16) -> u16
    requires { at ≤ 510 }
    ensures { result ≡ word (disk_of image.now block) at }
{
    let place = BLOCK_SIZE * usize::from(block) + usize::from(at);
    word_at(&[byte_in(image, place), byte_in(image, place + 1)], 0)
}

/// The 256 words of a block of an image.
pub fn words_in(image: &[u8], block: u16) -> [u16; 256]
    ensures { result ≡ words (disk_of image.now block) 0 256 }
{
    let mut all = [0; 256];
    for k in 0..256 {
        all[k as usize] = word_in(image, block, 2 * k);
    }
    all
}

/// Fills `into` with the bytes from a place of an image on.
pub fn read_bytes(image: &[u8], at: usize, into: &mut [u8])
    requires { at + length into.old < 2 ^ 63 }
    ensures { into.new ≡ bytes_from image.now at (length into.old) }
{
    let start = at.min(image.len());
    let end = (at + into.len()).min(image.len());
    let (there, past) = into.split_at_mut(end - start);
    there.copy_from_slice(&image[start..end]);
    past.fill(0);
}

/// The super-block of an image.
pub fn super_in(image: &[u8]) -> SuperBlock
    ensures { result ≡ head (disk_of image.now) }
{
    let mut bytes = [0; 512];
    read_bytes(image, BLOCK_SIZE, &mut bytes);
    read_super(&bytes)
}

/// The inode of a number in an image. Inodes are numbered from 1 on.
pub fn inode_in(image: &[u8], ino: u32) -> DiskNode
    ensures { fields_of result ≡ inode (disk_of image.now) ino }
{
    let number = ino as usize + 31;
    let per_block = BLOCK_INODES as usize;
    let mut bytes = [0; 32];
    read_bytes(
        image,
        BLOCK_SIZE * (number / per_block) + INODE_SIZE * (number % per_block),
        &mut bytes,
    );
    read_node(&bytes)
}
