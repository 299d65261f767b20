//! The list of free blocks, where all blocks from one on up to the swap area are free.
ghost use Rattle.std.specs.Prelude.{◌≡◌, ◌+◌, ◌-◌, ◌*◌, ◌/◌, ◌≤◌, ◌<◌, ◌∷◌, ◌++◌, nat_lt, if◌then◌else◌, vec_len, OnOk};
ghost use Rattle.make_image.specs.FreeList.{freed_down};
ghost use Rattle.make_image.specs.FreeBlocks.{free_block, number as number_of};
ghost use Rattle.fs_codec.specs.Bytes.{bytes_of};
ghost use Rattle.make_image.specs.Padded.{padded};

use crate::bytes::{push_padded, push_words};
use fs_codec::{BLOCK_SIZE, LIST_SIZE, SWAP_START};
use std::alloc::AllocError;

/// The first hundred at or above the lowest free block.
fn top(lowest: u16) -> u16
    requires { lowest ≤ SWAP_START }
    ensures { result ≡ (lowest + 99) / 100 * 100 }
{
    lowest.div_ceil(100) * 100
}

/// How many numbers the list of the super-block holds.
pub fn free_count(lowest: u16) -> u16
    requires below { lowest < SWAP_START }
    requires above { 0 < lowest }
    ensures { result ≡ (freed_down (SWAP_START - lowest)).nfree }
{
    top(lowest) - lowest + 1
}

/// The numbers of the list of the super-block, with those after its end.
pub fn free_numbers(lowest: u16) -> [u16; 100]
    requires below { lowest < SWAP_START }
    requires above { 0 < lowest }
    ensures { result ≡ (freed_down (SWAP_START - lowest)).free }
{
    let top = top(lowest);
    let mut numbers = [0; 100];
    for i in 0..100 {
        numbers[i as usize] = number(lowest, top, i);
    }
    numbers
}

#[tactic(auto, unfolding(crate::specs::FreeBlocks::number))]
fn number(lowest: u16, top: u16, i: u16) -> u16
    requires below { lowest ≤ SWAP_START }
    requires fits { top ≤ SWAP_START }
    requires few { i < LIST_SIZE }
    ensures { result ≡ number_of lowest top i }
{
    if lowest + i <= top {
        below_end(top - i)
    } else {
        below_end(top + LIST_SIZE - i)
    }
}

fn below_end(block: u16) -> u16
    ensures { result ≡ (if nat_lt block SWAP_START then block else 0) }
{
    if block < SWAP_START { block } else { 0 }
}

/// What a block holds once it is freed: the first of each hundred has a full list.
pub fn push_free_block(image: &mut Vec<u8>, block: u16) -> Result<(), AllocError>
    requires { block < SWAP_START }
    ensures items { OnOk result (image.new.items ≡ image.old.items ++ free_block block) }
    ensures len { OnOk result (vec_len image.new ≡ vec_len image.old + BLOCK_SIZE) }
{
    if block % 100 == 0 {
        push_full_list(image, &free_numbers(block + 1))
    } else {
        push_padded(image, &[], BLOCK_SIZE)
    }
}

fn push_full_list(image: &mut Vec<u8>, numbers: &[u16; 100]) -> Result<(), AllocError>
    ensures items { OnOk result (image.new.items ≡ image.old.items ++ padded BLOCK_SIZE (bytes_of (LIST_SIZE ∷ numbers.now))) }
    ensures len { OnOk result (vec_len image.new ≡ vec_len image.old + BLOCK_SIZE) }
{
    let end = image.len() + BLOCK_SIZE;
    push_words(image, &[LIST_SIZE])?;
    push_words(image, numbers)?;
    image.resize(end, 0)
}
