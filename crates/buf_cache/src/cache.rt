//! The disk through fifteen buffers: `bio.c` in Lions' Commentary.
ghost use Rattle.std.specs.Prelude.{◌≡◌, ◌≢◌, ◌+◌, ◌<◌, ◌≤◌, ◌∷◌, [], length, map, take, drop, slice_index_or, slice_set, IfOk, IfSome, IfNone};
ghost use Rattle.std.specs.List.{All, remove};
ghost use Rattle.std.specs.Borrow.{sem};
ghost use Rattle.std.specs.Io.BufRead.{Rests};
ghost use Rattle.buf_cache.specs.Blocks.{block_at, patched, IsDisk, WritesLate};
ghost use Rattle.buf_cache.specs.Cached.{cached_blocks, used, changed, flushed, written, IsCached};
ghost use Rattle.buf_cache.specs.Slots.{buffer_in, cached_in, blocks_with, written_head, clean, dirty, IsKept};
ghost use Rattle.buf_cache.specs.declared.cache.Head.{Head};
ghost use Rattle.buf_cache.specs.contracts.cache.Cache.{the_row};

use crate::disk::Disk;
use arrayvec::ArrayVec;
use fs_codec::{BLOCK_SIZE, DISK_BLOCKS};
use std::alloc::{AllocError, Global};
use std::marker::Model;

/// What is known of a buffer but for its bytes, which don't move: `buf` in Lions' Commentary, `buf.h`.
#[derive(Clone, Copy, Debug, Default, PartialEq, Eq)]
struct Head {
    /// The number of its block.
    block: u16,
    /// Where its bytes are.
    slot: u8,
    /// Whether the disk is still to have them: `B_DELWRI`.
    is_changed: bool,
}

/// What the kernel reads and writes of its disk: a list of 4,872 blocks of 512 bytes, of which up to fifteen are in buffers.
/// The block that was used last is the first of them. One more block takes the place of that which was used longest ago, and
/// a block that has changed reaches the disk then, or at a sync. Lions' Commentary, `bio.c`.
#[derive(Drop)]
pub struct Cache {
    disk: Vec<[u8; 512]>,
    slots: Vec<[u8; 512]>,
    heads: ArrayVec<Head, 15>,
}

impl Model for Cache {
    ghost use Rattle.buf_cache.specs.Cached.{Cached};
    ghost use Rattle.buf_cache.specs.Slots.{cached_in, IsKept};

    ghost Value = { Cached };

    ghost view = { λ c. cached_in c.disk.items c.slots.items c.heads.items };

    ghost invariant = { λ c. IsKept c.disk.items c.slots.items c.heads.items };
}

/// The place of the buffer that has block `n`. `incore`.
fn find(heads: &[Head], n: u16) -> Option<usize>
    ensures some { IfSome result (λ k. (k < length heads.now)
        × ((head : Head) → (slice_index_or heads.now k head).block ≡ n)) }
    ensures none { IfNone result (blocks_with heads.now n ≡ 0) }
{
    for k in 0..heads.len() {
        if heads[k].block == n {
            return Some(k);
        }
    }
    None
}

/// Brings the head at a place to the front. The others stay in their order.
fn to_front(heads: &mut [Head], place: usize)
    requires { place < length heads.old }
    ensures { (head : Head) → heads.new ≡ slice_index_or heads.old place head ∷ remove heads.old place }
{
    for k in (0..place).rev() {
        heads.swap(k, k + 1);
    }
}

/// Writes a block to the disk if it has changed. `bwrite`.
fn write_block(disk: &mut Vec<[u8; 512]>, slots: &[[u8; 512]], head: Head)
    requires block { head.block < length disk.old.items }
    requires slot { head.slot < length slots.now }
    ensures { disk.new.items ≡ written_head slots.now head disk.old.items }
{
    if head.is_changed {
        disk[head.block as usize] = slots[head.slot as usize];
    }
}

/// A slot for the bytes of one more block. Where all fifteen are taken the last block goes, and to the disk if it has changed.
fn take_slot(disk: &mut Vec<[u8; 512]>, slots: &[[u8; 512]], heads: &mut ArrayVec<Head, 15>) -> u8
    requires { IsKept disk.old.items slots.now heads.old.items }
    ensures disk { disk.new.items ≡ written (drop 14 (map (buffer_in slots.now) heads.old.items)) disk.old.items }
    ensures heads { heads.new.items ≡ take 14 heads.old.items }
    ensures low { result ≤ length heads.new.items }
    ensures others { All (λ head. (head.slot < length heads.new.items + 1) × (head.slot ≢ result)) heads.new.items }
{
    if !heads.is_full() {
        return heads.len() as u8;
    }
    let last = heads.remove(14);
    write_block(disk, slots, last);
    last.slot
}

/// Reads block `n`, which no buffer has, into one that comes before the others. It stands out of line, so that a block that
/// is in a buffer is found with few registers.
#[inline(never)]
fn fetch(
    disk: &mut Vec<[u8; 512]>,
    slots: &mut Vec<[u8; 512]>,
    heads: &mut ArrayVec<Head, 15>,
    n: u16,
)
    requires kept { IsKept disk.old.items slots.old.items heads.old.items }
    requires block { n < DISK_BLOCKS }
    requires none { blocks_with heads.old.items n ≡ 0 }
    ensures used { cached_in disk.new.items slots.new.items heads.new.items
        ≡ used (cached_in disk.old.items slots.old.items heads.old.items) n }
    ensures kept { IsKept disk.new.items slots.new.items heads.new.items }
{
    let slot = take_slot(disk, slots, heads);
    slots[slot as usize] = disk[n as usize];
    let head = Head {
        block: n,
        slot,
        is_changed: false,
    };
    heads.insert(0, head);
}

/// Writes the blocks that have changed to the disk.
fn write_blocks(disk: &mut Vec<[u8; 512]>, slots: &[[u8; 512]], heads: &[Head])
    requires { IsKept disk.old.items slots.now heads.now }
    ensures { disk.new.items ≡ written (map (buffer_in slots.now) heads.now) disk.old.items }
{
    for k in 0..heads.len() {
        write_block(disk, slots, heads[k]);
    }
}

/// Marks each block as one that the disk has as it is.
fn clean_all(heads: &mut [Head])
    ensures { heads.new ≡ map clean heads.old }
{
    for k in 0..heads.len() {
        heads[k].is_changed = false;
    }
}

/// Puts bytes at a place of the first block, which has changed then.
fn patch(slots: &mut Vec<[u8; 512]>, heads: &mut [Head], at: u16, bytes: &[u8])
    requires some { 0 < length heads.old }
    requires slot { (head : Head) → (slice_index_or heads.old 0 head).slot < length slots.old.items }
    requires within { at + length bytes.now ≤ BLOCK_SIZE }
    ensures heads { (head : Head) → heads.new ≡ slice_set heads.old 0 (dirty (slice_index_or heads.old 0 head)) }
    ensures slots { (head : Head) → slots.new.items
        ≡ slice_set slots.old.items (slice_index_or heads.old 0 head).slot
        (patched at bytes.now (block_at slots.old.items (slice_index_or heads.old 0 head).slot)) }
{
    heads[0].is_changed = true;
    let block = &mut slots[heads[0].slot as usize];
    let from = at as usize;
    block[from..from + bytes.len()].copy_from_slice(bytes);
}

impl Cache {
    /// A cache over a disk, with no block in a buffer. All memory of the buffers is taken here. `binit`.
    ///
    /// # Errors
    ///
    /// There is no memory for fifteen blocks.
    pub fn new(alloc: Global, disk: Disk) -> Result<Cache, AllocError>
        ensures cached { IfOk result (λ cache. cache ≡ record { disk = disk; buffers = [] }) }
        ensures blocks { IfOk result (λ cache. cached_blocks cache ≡ disk) }
    {
        let slots = vec![in alloc; [0; 512]; 15]?;
        let Disk { blocks } = disk;
        Ok(Cache {
            disk: blocks,
            slots,
            heads: ArrayVec::new(),
        })
    }

    /// Brings block `n` to the front of the buffers, from the disk where none has it. `getblk`.
    #[inline(never)]
    fn bring(&mut self, n: u16)
        requires { n < DISK_BLOCKS }
        ensures used { self.new ≡ used self.old n }
        ensures form { IsCached self.old }
    {
        if let Some(place) = find(&self.heads, n) {
            to_front(&mut self.heads, place);
            return;
        }
        fetch(&mut self.disk, &mut self.slots, &mut self.heads, n);
    }

    /// The bytes of block `n`, which is then the one that was used last. `bread`, `brelse`.
    pub fn block(&mut self, n: u16) -> &[u8; 512]
        requires { n < DISK_BLOCKS }
        ensures* same { sem 𝓛 (Rests the_row self.entry (λ v. v ≡ used self.old n)) }
        ensures value { result.now ≡ block_at (cached_blocks self.old) n }
        ensures blocks { cached_blocks (used self.old n) ≡ cached_blocks self.old }
        ensures stored { WritesLate self.old.disk (cached_blocks self.old) (used self.old n).disk }
        ensures form { IsDisk (cached_blocks self.old) }
    {
        self.bring(n);
        let slot = self.heads[0].slot as usize;
        &self.slots[slot]
    }

    /// Puts bytes at `at` of block `n`, and leaves all else of the blocks. Block `n` is then the one that was used last, and is
    /// to be written. `bdwrite`.
    pub fn change(&mut self, n: u16, at: u16, bytes: &[u8])
        requires block { n < DISK_BLOCKS }
        requires within { at + length bytes.now ≤ BLOCK_SIZE }
        ensures changed { self.new ≡ changed self.old n at bytes.now }
        ensures blocks { cached_blocks self.new
            ≡ slice_set (cached_blocks self.old) n (patched at bytes.now (block_at (cached_blocks self.old) n)) }
        ensures stored { WritesLate self.old.disk (cached_blocks self.old) self.new.disk }
        ensures form { IsDisk (cached_blocks self.old) }
    {
        self.bring(n);
        patch(&mut self.slots, &mut self.heads, at, bytes);
    }

    /// Writes the blocks that have changed to the disk. They stay in their buffers, in their order. `bflush`.
    pub fn sync(&mut self)
        ensures flushed { self.new ≡ flushed self.old }
        ensures blocks { cached_blocks self.new ≡ cached_blocks self.old }
        ensures disk { self.new.disk ≡ cached_blocks self.old }
        ensures form { IsDisk (cached_blocks self.old) }
    {
        write_blocks(&mut self.disk, &self.slots, &self.heads);
        clean_all(&mut self.heads);
    }

    /// The bytes of block `n` on the disk, whatever its buffer has.
    pub fn on_disk(&self, n: u16) -> &[u8; 512]
        requires { n < DISK_BLOCKS }
        ensures value { result.now ≡ block_at self.now.disk n }
        ensures disk { IsDisk self.now.disk }
        ensures form { IsDisk (cached_blocks self.now) }
    {
        &self.disk[n as usize]
    }
}
