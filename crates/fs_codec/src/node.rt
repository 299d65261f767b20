//! The inode: file system(V).
ghost use Rattle.std.specs.Prelude.{◌<◌, ◌^◌};

/// An inode as a disk keeps it: file system(V).
#[derive(Clone, Copy, Debug, PartialEq, Eq)]
pub struct DiskNode {
    /// 0 where the inode is free.
    pub mode: u16,
    pub nlink: u8,
    pub uid: u8,
    pub gid: u8,
    /// In bytes.
    pub size: u32,
    /// Numbers of blocks, or in the first the numbers of a device.
    pub addr: [u16; 8],
    /// The times of the last access and of the last change, in seconds.
    pub actime: u32,
    pub modtime: u32,
    pub ghost small: { size < 2 ^ 24 },
}
