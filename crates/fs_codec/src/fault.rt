//! What can be wrong with a disk image.
use thiserror::Error;

/// The first fault of a disk image. A kind that stands earlier comes first, and of one kind the least numbers, the inode's
/// before the block's.
#[derive(Clone, Copy, Debug, PartialEq, Eq, Error)]
pub enum ImageFault {
    /// The image has more bytes than a disk, which has 2,494,464.
    #[error("too long")]
    TooLong,
    /// The super-block has no inodes, more blocks of inodes than blocks, or a list of more than 100 numbers.
    #[error("bad super-block")]
    BadSuper,
    /// The file system has so many blocks that they reach into the swap area, which begins at block 4000.
    #[error("file system of {0} blocks leaves no swap")]
    NoSwap(u32),
    /// This block of the free list says that it holds more than 100 numbers.
    #[error("free count in block {0}")]
    FreeCount(u32),
    /// The free list has this number, which is no data block's.
    #[error("free block {0} outside")]
    FreeOutside(u32),
    /// This inode holds this number, which is no data block's.
    #[error("inode {0} has block {1} outside")]
    NodeOutside(u32, u32),
    /// This block comes twice among the free list and the blocks that inodes hold.
    #[error("block {0} twice")]
    BlockTwice(u32),
    /// Inode 1 is no directory.
    #[error("no root")]
    NoRoot,
}
