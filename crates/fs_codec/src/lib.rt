//! What stands on a Sixth Edition disk: the super-block, the inode and the directory entry in their bytes and in an image, and,
//! as definitions for the crates above, the store that a disk's blocks stand for and the faults of a disk image.
#![tactic(auto)]

mod entry;
mod fault;
mod image;
mod layout;
mod modes;
mod node;
mod node_bytes;
mod super_block;
mod words;

pub use entry::{DirEntry, read_entry, write_entry};
pub use fault::ImageFault;
pub use image::{byte_in, inode_in, read_bytes, super_in, word_in, words_in};
pub use layout::{
    BLOCK_ADDRESSES, BLOCK_INODES, BLOCK_SIZE, DISK_BLOCKS, DISK_BYTES, INODE_SIZE, LIST_SIZE,
    SWAP_START,
};
pub use modes::{
    IALLOC, IEXEC, IFBLK, IFCHR, IFDIR, IFMT, ILARG, IREAD, ISGID, ISUID, ISVTX, IWRITE, file_type,
    has_execute_bit, holds_blocks, is_character_device, is_device, is_directory, is_large,
};
pub use node::DiskNode;
pub use node_bytes::{read_node, write_node};
pub use super_block::{SuperBlock, read_super, write_super};
pub use words::{long_at, put_byte, put_long, put_word, put_words, read_words, word_at};
