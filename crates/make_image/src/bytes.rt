//! Words, inodes and directory entries after the bytes that are there.
ghost use Rattle.std.specs.Prelude.{◌≡◌, ℕ, ◌+◌, ◌*◌, ◌^◌, ◌<◌, ◌≤◌, [], ◌∷◌, ◌++◌, length, slice_index, vec_len, OnOk};
ghost use Rattle.fs_codec.specs.Fields.{fields_of};
ghost use Rattle.fs_codec.specs.Bytes.{bytes_of, super_bytes, inode_bytes, entry_bytes};
ghost use Rattle.make_image.specs.Padded.{padded};

use fs_codec::{
    BLOCK_SIZE, DirEntry, DiskNode, SuperBlock, put_word, write_entry, write_node, write_super,
};
use std::alloc::AllocError;

pub fn push_words(bytes: &mut Vec<u8>, words: &[u16]) -> Result<(), AllocError>
    ensures items { OnOk result (bytes.new.items ≡ bytes.old.items ++ bytes_of words.now) }
    ensures len { OnOk result (vec_len bytes.new ≡ vec_len bytes.old + 2 * length words.now) }
{
    for word in words {
        push_word(bytes, *word)?;
    }
    Ok(())
}

fn push_word(bytes: &mut Vec<u8>, word: u16) -> Result<(), AllocError>
    ensures items { OnOk result (bytes.new.items ≡ bytes.old.items ++ bytes_of (word ∷ [])) }
    ensures len { OnOk result (vec_len bytes.new ≡ vec_len bytes.old + 2) }
{
    let mut spelled = [0; 2];
    put_word(&mut spelled, 0, word);
    push_bytes(bytes, &spelled)
}

pub fn push_node(bytes: &mut Vec<u8>, node: &DiskNode) -> Result<(), AllocError>
    ensures items { OnOk result (bytes.new.items ≡ bytes.old.items ++ inode_bytes (fields_of node.now)) }
    ensures len { OnOk result (vec_len bytes.new ≡ vec_len bytes.old + 32) }
{
    let mut spelled = [0; 32];
    write_node(node, &mut spelled);
    push_bytes(bytes, &spelled)
}

pub fn push_entry(bytes: &mut Vec<u8>, entry: &DirEntry) -> Result<(), AllocError>
    ensures items { OnOk result (bytes.new.items ≡ bytes.old.items ++ entry_bytes entry.now) }
    ensures len { OnOk result (vec_len bytes.new ≡ vec_len bytes.old + 16) }
{
    let mut spelled = [0; 16];
    write_entry(entry, &mut spelled);
    push_bytes(bytes, &spelled)
}

/// A block whose first 416 bytes are the super-block, and the others 0.
pub fn push_super_block(bytes: &mut Vec<u8>, head: &SuperBlock) -> Result<(), AllocError>
    ensures items { OnOk result (bytes.new.items ≡ bytes.old.items ++ padded BLOCK_SIZE (super_bytes head.now)) }
    ensures len { OnOk result (vec_len bytes.new ≡ vec_len bytes.old + BLOCK_SIZE) }
{
    let mut spelled = [0; BLOCK_SIZE];
    write_super(head, &mut spelled);
    push_bytes(bytes, &spelled)
}

fn push_bytes(bytes: &mut Vec<u8>, more: &[u8]) -> Result<(), AllocError>
    ensures items { OnOk result (bytes.new.items ≡ bytes.old.items ++ more.now) }
    ensures len { OnOk result (vec_len bytes.new ≡ vec_len bytes.old + length more.now) }
    ensures fits { (k : ℕ) → slice_index more.now k < 256 }
{
    bytes.extend_from_slice(more)
}

/// Puts `more` after the bytes, and zeros up to `size`.
pub fn push_padded(bytes: &mut Vec<u8>, more: &[u8], size: usize) -> Result<(), AllocError>
    requires within { length more.now ≤ size }
    requires fits { size ≤ 2 ^ 32 }
    ensures items { OnOk result (bytes.new.items ≡ bytes.old.items ++ padded size more.now) }
    ensures len { OnOk result (vec_len bytes.new ≡ vec_len bytes.old + size) }
{
    let end = bytes.len() + size;
    bytes.extend_from_slice(more)?;
    bytes.resize(end, 0)
}
