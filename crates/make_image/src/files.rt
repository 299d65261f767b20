//! Files and devices with their inodes, added one by one.
ghost use Rattle.std.specs.Prelude.{◌≡◌, ◌+◌, ◌*◌, ◌/◌, ◌^◌, ◌<◌, ◌≤◌, [], length, OnOk};
ghost use Rattle.std.specs.List.{range_with_len};
ghost use Rattle.make_image.specs.Padded.{padded};
ghost use Rattle.make_image.specs.Files.{Bytes, device};

use crate::bytes::{push_node, push_padded};
use fs_codec::{BLOCK_SIZE, DiskNode, IALLOC, IFCHR};
use std::alloc::{AllocError, Global};

/// The blocks of inodes.
pub const INODE_BLOCKS: u16 = 60;

/// The first block after the inodes.
pub const FIRST_BLOCK: u16 = 62;

/// The mode of a device for characters that all may read and write.
const DEVICE: u16 = IALLOC | IFCHR | 0o666;

/// The bytes of the inodes so far, and of the blocks that their files have.
#[derive(Drop)]
pub struct Files {
    pub inodes: Vec<u8>,
    pub contents: Vec<u8>,
}

impl Files {
    ghost use Rattle.make_image.specs.Adding.{AddsNode};

    pub fn new(alloc: Global) -> Self
        ensures inodes { result.inodes.items ≡ [] }
        ensures contents { result.contents.items ≡ [] }
    {
        Files {
            inodes: Vec::new(alloc),
            contents: Vec::new(alloc),
        }
    }

    /// The first block after those of the files so far.
    pub fn next_block(&self) -> u16
        requires { length self.now.contents.items ≤ 4096 * 106 }
        ensures { result ≡ FIRST_BLOCK + length self.now.contents.items / BLOCK_SIZE }
    {
        FIRST_BLOCK + (self.contents.len() / BLOCK_SIZE) as u16
    }

    pub fn add_file(&mut self, mode: u16, nlink: u8, bytes: &[u8]) -> Result<(), AllocError>
        requires small { length bytes.now ≤ 4096 }
        requires room { length self.old.contents.items ≤ 4096 * 105 }
        ensures { OnOk result (AddsNode (record { mode = mode; nlink = nlink; content = Bytes bytes.now }) self.old self.new) }
    {
        let blocks = bytes.len().div_ceil(BLOCK_SIZE);
        let node = DiskNode {
            mode,
            nlink,
            uid: 0,
            gid: 0,
            size: bytes.len() as u32,
            addr: addresses(self.next_block(), blocks as u16),
            actime: 0,
            modtime: 0,
        };
        push_node(&mut self.inodes, &node)?;
        push_padded(&mut self.contents, bytes, BLOCK_SIZE * blocks)
    }

    pub fn add_device(&mut self, numbers: u16) -> Result<(), AllocError>
        requires room { length self.old.contents.items ≤ 4096 * 105 }
        ensures { OnOk result (AddsNode (device numbers) self.old self.new) }
    {
        let node = DiskNode {
            mode: DEVICE,
            nlink: 1,
            uid: 0,
            gid: 0,
            size: 0,
            addr: [numbers, 0, 0, 0, 0, 0, 0, 0],
            actime: 0,
            modtime: 0,
        };
        push_node(&mut self.inodes, &node)
    }
}

/// The addresses of a file with so many blocks, the first of them this one.
fn addresses(first: u16, blocks: u16) -> [u16; 8]
    requires few { blocks ≤ 8 }
    requires fits { first + blocks < 2 ^ 16 }
    ensures { result ≡ padded 8 (range_with_len first blocks) }
{
    let mut addresses = [0; 8];
    for i in 0..blocks {
        addresses[i as usize] = first + i;
    }
    addresses
}
