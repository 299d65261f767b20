//! The image, region by region.
ghost use Rattle.std.specs.Prelude.{◌≡◌, ◌+◌, ◌-◌, ◌*◌, ◌<◌, ◌++◌, vec_len, IfOk, OnOk};
ghost use Rattle.fs_codec.specs.Bytes.{super_bytes};
ghost use Rattle.make_image.specs.Padded.{padded};
ghost use Rattle.make_image.specs.FreeList.{freed_down};
ghost use Rattle.make_image.specs.Image.{super_block, build_of};

use crate::bytes::{push_padded, push_super_block};
use crate::files::INODE_BLOCKS;
use crate::free_list::{free_count, free_numbers, push_free_block};
use crate::tree::files;
use fs_codec::{BLOCK_SIZE, SWAP_START, SuperBlock};
use std::alloc::{AllocError, Global};

/// Build `n`, a disk image of 4,000 blocks, which are 2,048,000 bytes, in the form of file system(V) and directory(V) of the
/// manual. It has `/etc/init`, `/dev/tty8`, `/dev/null` and `n` mod 100 plain files in `/u`, whose sizes and bytes follow from
/// `n`. The only error is that memory ends.
pub fn build(alloc: Global, n: u32) -> Result<Vec<u8>, AllocError>
    ensures bytes { IfOk result (λ image. image.items ≡ build_of n) }
    ensures len { IfOk result (λ image. vec_len image ≡ 2048000) }
{
    let mut image = Vec::with_capacity(alloc, BLOCK_SIZE * SWAP_START as usize)?;
    let files = files(alloc, n)?;
    let first_free = files.next_block();
    push_padded(&mut image, &[], BLOCK_SIZE)?;
    push_super(&mut image, first_free)?;
    push_padded(
        &mut image,
        &files.inodes,
        BLOCK_SIZE * INODE_BLOCKS as usize,
    )?;
    image.extend_from_slice(&files.contents)?;
    push_free_blocks(&mut image, first_free)?;
    Ok(image)
}

/// The super-block of a disk where the blocks from this one on are free.
fn push_super(image: &mut Vec<u8>, first_free: u16) -> Result<(), AllocError>
    requires below { first_free < SWAP_START }
    requires above { 0 < first_free }
    ensures items { OnOk result
        (image.new.items
        ≡ image.old.items ++ padded BLOCK_SIZE (super_bytes (super_block (freed_down (SWAP_START - first_free))))) }
    ensures len { OnOk result (vec_len image.new ≡ vec_len image.old + BLOCK_SIZE) }
{
    let head = SuperBlock {
        i_size: INODE_BLOCKS,
        f_size: SWAP_START,
        nfree: free_count(first_free),
        free: free_numbers(first_free),
        ninode: 0,
        inode: [0; 100],
        flock: 0,
        ilock: 0,
        fmod: 0,
        ronly: 0,
        time: 0,
    };
    push_super_block(image, &head)
}

fn push_free_blocks(image: &mut Vec<u8>, first_free: u16) -> Result<(), AllocError>
    requires { first_free < SWAP_START }
    ensures items { OnOk result (image.new.items ≡ image.old.items ++ (freed_down (SWAP_START - first_free)).blocks) }
    ensures len { OnOk result (vec_len image.new ≡ vec_len image.old + BLOCK_SIZE * (SWAP_START - first_free)) }
{
    for block in first_free..SWAP_START {
        push_free_block(image, block)?;
    }
    Ok(())
}
