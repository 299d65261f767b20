//! The sizes of a disk and of what stands on it: file system(V) and directory(V), and rk(IV) for the disk itself.

/// The bytes of a block.
pub const BLOCK_SIZE: usize = 512;

/// The blocks of a disk.
pub const DISK_BLOCKS: u16 = 4872;

/// The bytes of a disk.
pub const DISK_BYTES: usize = 2_494_464;

/// The block with which the swap area begins on the disk that has the root. The file system there ends before it.
pub const SWAP_START: u16 = v6_base::SWAP_START;

/// The bytes of an inode.
pub const INODE_SIZE: usize = 32;

/// The inodes of a block.
pub const BLOCK_INODES: u16 = 16;

/// The most numbers in each list of the super-block, and in a group of the free list.
pub const LIST_SIZE: u16 = 100;

/// The addresses in an indirect block.
pub const BLOCK_ADDRESSES: u16 = 256;
