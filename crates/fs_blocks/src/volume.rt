//! A disk with its super-block and its list of free blocks: file system(V), and `alloc.c` in Lions' Commentary.

ghost use Rattle.std.specs.Prelude.{◌≡◌, ◌≢◌, ℕ, ◌+◌, ◌-◌, ◌*◌, ◌<◌, ◌≤◌, [], ◌∷◌, length, slice_set, slice_index, MatchResult, IfSome, IfNone, true, false, nat_eq, count_by, take, drop, if◌then◌else◌};
ghost use Rattle.std.specs.Borrow.{sem};
ghost use Rattle.std.specs.Io.BufRead.{Rests};
ghost use Rattle.buf_cache.specs.Blocks.{block_at, patched, IsDisk, WritesLate};
ghost use Rattle.buf_cache.specs.Cached.{cached_blocks, used};
ghost use Rattle.v6_base.specs.declared.errno.Errno.{Errno};
ghost use Rattle.fs_codec.specs.Words.{word, words};
ghost use Rattle.fs_codec.specs.Disk.{is_data};
ghost use Rattle.fs_codec.specs.Fields.{super_of};
ghost use Rattle.fs_codec.specs.Faults.{disk_fault};
ghost use Rattle.fs_codec.specs.Stands.{store_of};
ghost use Rattle.fs_laws.specs.Chain.{free, IsSound, Takes, SameButFree, SameZone};
ghost use Rattle.fs_laws.specs.Sync.{ReadsAlike};
ghost use Rattle.fs_laws.specs.Whole.{IsWhole};
ghost use Rattle.fs_blocks.specs.State.{disk, disk_with, Fits, IsVolume, IsGroup, blank, Allocates, IsFull, opened, SameButSpare, HasNoFlags, SameSizes, SameFlags};
ghost use Rattle.fs_blocks.specs.contracts.volume.Volume.{the_row};

use buf_cache::Cache;
use fs_codec::{
    BLOCK_SIZE, DISK_BLOCKS, LIST_SIZE, SuperBlock, put_word, put_words, read_super, read_words,
    word_at, write_super,
};
use std::marker::Model;
use v6_base::Errno;

/// A disk with its super-block, which is read once, kept in memory, and written by a sync where it has changed.
#[derive(Drop)]
pub struct Volume {
    cache: Cache,
    head: SuperBlock,
    changed: bool,
}

impl Model for Volume {
    ghost use Rattle.buf_cache.specs.Cached.{cached_blocks};
    ghost use Rattle.fs_blocks.specs.State.{Mounted, mounted, IsKept};

    ghost Value = { Mounted };

    ghost view = { λ v. mounted v.cache v.head v.changed };

    ghost invariant = { λ v. IsKept (cached_blocks v.cache) v.head v.changed };
}

/// Sees that each number is a word.
fn see_words(words: &[u16; 100])
    ensures long { length words.now ≡ LIST_SIZE }
    ensures each { (k : ℕ) → slice_index words.now k < 65536 }
{
    let _first = words[0];
}

/// Sees that each flag is a byte.
fn see_flags(head: &SuperBlock)
    ensures flock { head.now.flock < 256 }
    ensures ilock { head.now.ilock < 256 }
    ensures fmod { head.now.fmod < 256 }
    ensures ronly { head.now.ronly < 256 }
{
    let _flock = head.flock;
    let _ilock = head.ilock;
    let _fmod = head.fmod;
    let _ronly = head.ronly;
}

/// Sees that the fields of a super-block are words and bytes.
fn see_fields(head: &SuperBlock)
    ensures { Fits head.now }
{
    see_words(&head.free);
    see_words(&head.inode);
    see_flags(head);
    let _i_size = head.i_size;
    let _f_size = head.f_size;
    let _nfree = head.nfree;
    let _ninode = head.ninode;
    let _time = head.time;
}

/// The count and the numbers of the group that block `b` holds.
fn load_group(cache: &mut Cache, b: u16, free: &mut [u16; 100]) -> u16
    requires { b < DISK_BLOCKS }
    ensures same { cached_blocks cache.new ≡ cached_blocks cache.old }
    ensures count { result ≡ word (block_at (cached_blocks cache.old) b) 0 }
    ensures numbers { free.new ≡ words (block_at (cached_blocks cache.old) b) 2 LIST_SIZE }
    ensures stored { WritesLate cache.old.disk (cached_blocks cache.old) cache.new.disk }
{
    let block = cache.block(b);
    read_words(block, 2, free);
    word_at(block, 0)
}

/// Takes the last number of the super-block's group. Where it is the only one, its block holds the next group.
fn take_top(cache: &mut Cache, head: &mut SuperBlock) -> u16
    requires some { 0 < head.old.nfree }
    requires few { head.old.nfree ≤ LIST_SIZE }
    requires block { slice_index head.old.free (head.old.nfree - 1) < DISK_BLOCKS }
    ensures same { cached_blocks cache.new ≡ cached_blocks cache.old }
    ensures taken { result ≡ slice_index head.old.free (head.old.nfree - 1) }
    ensures stored { WritesLate cache.old.disk (cached_blocks cache.old) cache.new.disk }
    ensures next { head.old.nfree ≡ 1 → IsGroup (block_at (cached_blocks cache.old) result) head.new }
    ensures more { 1 < head.old.nfree → (head.new.nfree ≡ head.old.nfree - 1) × (head.new.free ≡ head.old.free) }
    ensures others { SameButFree head.old head.new }
    ensures flags { SameFlags head.old head.new }
{
    let left = head.nfree - 1;
    let b = head.free[left as usize];
    if left == 0 {
        head.nfree = load_group(cache, b, &mut head.free);
    } else {
        head.nfree = left;
    }
    b
}

/// Makes a block all zeros.
fn clear(cache: &mut Cache, b: u16)
    requires { b < DISK_BLOCKS }
    ensures zeros { block_at (cached_blocks cache.new) b ≡ blank }
    ensures stored { WritesLate cache.old.disk (cached_blocks cache.old) cache.new.disk }
    ensures others { (k : ℕ) → k ≢ b → block_at (cached_blocks cache.new) k ≡ block_at (cached_blocks cache.old) k }
{
    cache.change(b, 0, &[0; BLOCK_SIZE]);
}

/// Writes the group of the super-block into the first 202 bytes of a block.
fn save_group(cache: &mut Cache, head: &SuperBlock, b: u16)
    requires { b < DISK_BLOCKS }
    ensures stored { WritesLate cache.old.disk (cached_blocks cache.old) cache.new.disk }
    ensures saved { IsGroup (block_at (cached_blocks cache.new) b) head.now }
    ensures behind { drop 202 (block_at (cached_blocks cache.new) b) ≡ drop 202 (block_at (cached_blocks cache.old) b) }
    ensures others { (k : ℕ) → k ≢ b → block_at (cached_blocks cache.new) k ≡ block_at (cached_blocks cache.old) k }
{
    let mut group = [0; 202];
    put_word(&mut group, 0, head.nfree);
    put_words(&mut group, 2, &head.free);
    see_words(&head.free);
    cache.change(b, 0, &group);
}

/// Takes the first free block and clears it.
fn take_first(cache: &mut Cache, head: &mut SuperBlock) -> Option<u16>
    requires { IsVolume (cached_blocks cache.old) head.old }
    ensures sound { IsVolume (cached_blocks cache.new) head.new }
    ensures some { IfSome result (λ b.
        Takes (disk_with (cached_blocks cache.old) head.old) b (disk_with (cached_blocks cache.new) head.new)
        × (block_at (cached_blocks cache.new) b ≡ blank)
        × ((k : ℕ) → k ≢ b → block_at (cached_blocks cache.new) k ≡ block_at (cached_blocks cache.old) k)) }
    ensures none { IfNone result ((free (disk_with (cached_blocks cache.old) head.old) ≡ [])
        × (free (disk_with (cached_blocks cache.new) head.new) ≡ [])
        × (cached_blocks cache.new ≡ cached_blocks cache.old)) }
    ensures stored { WritesLate cache.old.disk (cached_blocks cache.old) cache.new.disk }
    ensures others { SameButFree head.old head.new }
    ensures flags { SameFlags head.old head.new }
{
    if head.nfree == 0 {
        return None;
    }
    if head.free[head.nfree as usize - 1] == 0 {
        head.nfree = 0;
        see_fields(head);
        return None;
    }
    let b = take_top(cache, head);
    see_fields(head);
    clear(cache, b);
    Some(b)
}

/// Puts a block that is not free at the front of the free list.
fn push_free(cache: &mut Cache, head: &mut SuperBlock, b: u16)
    requires sound { IsVolume (cached_blocks cache.old) head.old }
    requires zone { is_data (disk_with (cached_blocks cache.old) head.old) b ≡ true }
    requires fresh { count_by (nat_eq b) (free (disk_with (cached_blocks cache.old) head.old)) ≡ 0 }
    ensures sound { IsVolume (cached_blocks cache.new) head.new }
    ensures first { free (disk_with (cached_blocks cache.new) head.new)
        ≡ b ∷ free (disk_with (cached_blocks cache.old) head.old) }
    ensures still { SameZone (disk_with (cached_blocks cache.old) head.old) (disk_with (cached_blocks cache.new) head.new) }
    ensures blocks { (k : ℕ) → k ≢ b → block_at (cached_blocks cache.new) k ≡ block_at (cached_blocks cache.old) k }
    ensures behind { drop 202 (block_at (cached_blocks cache.new) b) ≡ drop 202 (block_at (cached_blocks cache.old) b) }
    ensures room { head.old.nfree ≢ LIST_SIZE → cached_blocks cache.new ≡ cached_blocks cache.old }
    ensures stored { WritesLate cache.old.disk (cached_blocks cache.old) cache.new.disk }
    ensures others { SameButFree head.old head.new }
    ensures flags { SameFlags head.old head.new }
{
    if head.nfree == 0 {
        head.free[0] = 0;
        head.free[1] = b;
        head.nfree = 2;
        see_fields(head);
        return;
    }
    if head.nfree == LIST_SIZE {
        save_group(cache, head, b);
        head.free[0] = b;
        head.nfree = 1;
        see_fields(head);
        return;
    }
    head.free[head.nfree as usize] = b;
    head.nfree += 1;
    see_fields(head);
}

/// Writes the super-block with a time into block 1.
fn write_head(cache: &mut Cache, head: &mut SuperBlock, time: u32)
    requires { IsVolume (cached_blocks cache.old) head.old }
    ensures head { head.new ≡ record head.old { time = time } }
    ensures written { super_of (block_at (cached_blocks cache.new) 1) ≡ head.new }
    ensures rest { drop 416 (block_at (cached_blocks cache.new) 1) ≡ drop 416 (block_at (cached_blocks cache.old) 1) }
    ensures blocks { (k : ℕ) → k ≢ 1 → block_at (cached_blocks cache.new) k ≡ block_at (cached_blocks cache.old) k }
    ensures sound { IsVolume (cached_blocks cache.new) head.new }
    ensures free { free (disk_with (cached_blocks cache.new) head.new)
        ≡ free (disk_with (cached_blocks cache.old) head.old) }
{
    head.time = time;
    see_fields(head);
    let mut bytes = *cache.block(1);
    write_super(head, &mut bytes);
    cache.change(1, 0, &bytes);
}

impl Volume {
    /// The volume on a disk whose free list is sound, and the same store. It reads the super-block, whose four flags are 0
    /// from then on. `iinit`.
    pub fn open_on(mut cache: Cache) -> Volume
        requires { IsSound (block_at (cached_blocks cache)) }
        ensures blocks { result.state.blocks ≡ cached_blocks cache }
        ensures stored { result.stored ≡ (used cache 1).disk }
        ensures head { result.state.head ≡ opened (super_of (block_at (cached_blocks cache) 1)) }
        ensures free { free (disk result.state) ≡ free (block_at (cached_blocks cache)) }
        ensures clean { result.state.changed ≡ false }
        ensures faults { (limit : ℕ) → disk_fault limit (disk result.state)
            ≡ disk_fault limit (block_at (cached_blocks cache)) }
        ensures whole { IsWhole (block_at (cached_blocks cache)) → IsWhole (disk result.state) }
        ensures stands { IsWhole (block_at (cached_blocks cache)) → store_of (disk result.state)
            ≡ store_of (block_at (cached_blocks cache)) }
    {
        let mut head = read_super(cache.block(1));
        head.flock = 0;
        head.ilock = 0;
        head.fmod = 0;
        head.ronly = 0;
        see_fields(&head);
        Volume {
            cache,
            head,
            changed: false,
        }
    }

    /// The bytes of block `n`, of which block 1 may have an older super-block than `head` gives. `bread`.
    pub fn block(&mut self, n: u16) -> &[u8; 512]
        requires { n < DISK_BLOCKS }
        ensures* same { sem 𝓛 (Rests the_row self.entry (λ v. (v.state ≡ self.old.state)
            × WritesLate self.old.stored self.old.state.blocks v.stored)) }
        ensures value { result.now ≡ block_at self.old.state.blocks n }
    {
        self.cache.block(n)
    }

    /// Puts bytes at `at` of block `n`, which is neither the super-block nor free, and leaves all else. `bdwrite`.
    pub fn change(&mut self, n: u16, at: u16, bytes: &[u8])
        requires block { n < DISK_BLOCKS }
        requires within { at + length bytes.now ≤ BLOCK_SIZE }
        requires other { n ≢ 1 }
        requires used { count_by (nat_eq n) (free (disk self.old.state)) ≡ 0 }
        ensures blocks { self.new.state.blocks
            ≡ slice_set self.old.state.blocks n (patched at bytes.now (block_at self.old.state.blocks n)) }
        ensures stored { WritesLate self.old.stored self.old.state.blocks self.new.stored }
        ensures free { free (disk self.new.state) ≡ free (disk self.old.state) }
        ensures head { self.new.state.head ≡ self.old.state.head }
        ensures changed { self.new.state.changed ≡ self.old.state.changed }
    {
        self.cache.change(n, at, bytes);
    }

    /// The super-block as it is now, in memory. `getfs`. What always holds of a volume is told with it: there are 4,872
    /// blocks of 512 bytes, the free list is sound, the flags are 0, and where the super-block has not changed the one on
    /// the disk says the same.
    pub fn head(&self) -> &SuperBlock
        ensures head { result.now ≡ self.now.state.head }
        ensures blocks { IsDisk self.now.state.blocks }
        ensures sound { IsVolume self.now.state.blocks self.now.state.head }
        ensures flags { HasNoFlags self.now.state.head }
        ensures sizes { SameSizes self.now.state.blocks self.now.state.head }
        ensures stored { self.now.state.changed ≡ false
            → ReadsAlike (disk self.now.state) (block_at self.now.state.blocks) }
    {
        let _boot = self.cache.on_disk(0);
        &self.head
    }

    /// Sees what always holds, as `head` tells it, and costs nothing.
    pub(crate) fn see(&self)
        ensures blocks { IsDisk self.now.state.blocks }
        ensures sound { IsVolume self.now.state.blocks self.now.state.head }
        ensures flags { HasNoFlags self.now.state.head }
        ensures sizes { SameSizes self.now.state.blocks self.now.state.head }
        ensures stored { self.now.state.changed ≡ false
            → ReadsAlike (disk self.now.state) (block_at self.now.state.blocks) }
    {
        let _head = &self.head;
        let _boot = self.cache.on_disk(0);
    }

    /// Takes a block, the first of the free list, and makes it all zeros. `alloc`.
    ///
    /// # Errors
    ///
    /// `ENOSPC`: no block is free. No block has changed then, nor whether the super-block is to be written.
    pub fn alloc_block(&mut self) -> Result<u16, Errno>
        ensures taken { MatchResult result (λ b. Allocates self.old.state b self.new.state)
            (λ e. (e ≡ Errno.ENOSPC) × IsFull self.old.state self.new.state) }
        ensures stored { WritesLate self.old.stored self.old.state.blocks self.new.stored }
        ensures others { SameButFree self.old.state.head self.new.state.head }
    {
        match take_first(&mut self.cache, &mut self.head) {
            Some(b) => {
                self.changed = true;
                Ok(b)
            }
            None => Err(Errno::ENOSPC),
        }
    }

    /// Gives back a data block that nothing holds and that is not free. It is the first to be taken again. Where the
    /// super-block's group has 100 numbers, the first 202 bytes of the block become that group. `free`.
    pub fn free_block(&mut self, b: u16)
        requires zone { is_data (disk self.old.state) b ≡ true }
        requires fresh { count_by (nat_eq b) (free (disk self.old.state)) ≡ 0 }
        ensures first { free (disk self.new.state) ≡ b ∷ free (disk self.old.state) }
        ensures still { SameZone (disk self.old.state) (disk self.new.state) }
        ensures blocks { (k : ℕ) → k ≢ b → block_at self.new.state.blocks k ≡ block_at self.old.state.blocks k }
        ensures behind { drop 202 (block_at self.new.state.blocks b) ≡ drop 202 (block_at self.old.state.blocks b) }
        ensures room { self.old.state.head.nfree ≢ LIST_SIZE → self.new.state.blocks ≡ self.old.state.blocks }
        ensures stored { WritesLate self.old.stored self.old.state.blocks self.new.stored }
        ensures others { SameButFree self.old.state.head self.new.state.head }
        ensures changed { self.new.state.changed ≡ true }
    {
        push_free(&mut self.cache, &mut self.head, b);
        self.changed = true;
    }

    /// Makes these numbers, at most 100, the super-block's list of free inodes. `ialloc` and `ifree`.
    pub fn set_spare(&mut self, list: &[u16])
        requires { length list.now ≤ LIST_SIZE }
        ensures spare { take self.new.state.head.ninode self.new.state.head.inode ≡ list.now }
        ensures count { self.new.state.head.ninode ≡ length list.now }
        ensures behind { drop (length list.now) self.new.state.head.inode
            ≡ drop (length list.now) self.old.state.head.inode }
        ensures others { SameButSpare self.old.state.head self.new.state.head }
        ensures free { free (disk self.new.state) ≡ free (disk self.old.state) }
        ensures blocks { self.new.state.blocks ≡ self.old.state.blocks }
        ensures stored { self.new.stored ≡ self.old.stored }
        ensures changed { self.new.state.changed ≡ true }
    {
        self.head.ninode = list.len() as u16;
        self.head.inode[0..list.len()].copy_from_slice(list);
        self.changed = true;
        see_fields(&self.head);
    }

    /// Writes to the disk what has changed. A super-block that has changed gets this time, in seconds, and is written into
    /// the first 416 bytes of block 1. The blocks of the disk then stand for the same store as the volume. `update`.
    pub fn sync(&mut self, time: u32)
        ensures head { self.new.state.head
            ≡ (if self.old.state.changed then record self.old.state.head { time = time } else self.old.state.head) }
        ensures written { self.old.state.changed ≡ true → super_of (block_at self.new.state.blocks 1)
            ≡ self.new.state.head }
        ensures rest { drop 416 (block_at self.new.state.blocks 1) ≡ drop 416 (block_at self.old.state.blocks 1) }
        ensures still { self.old.state.changed ≡ false → self.new.state.blocks ≡ self.old.state.blocks }
        ensures blocks { (k : ℕ) → k ≢ 1 → block_at self.new.state.blocks k ≡ block_at self.old.state.blocks k }
        ensures free { free (disk self.new.state) ≡ free (disk self.old.state) }
        ensures changed { self.new.state.changed ≡ false }
        ensures stored { self.new.stored ≡ self.new.state.blocks }
        ensures faults { (limit : ℕ) → disk_fault limit (block_at self.new.state.blocks)
            ≡ disk_fault limit (disk self.new.state) }
        ensures stands { IsWhole (disk self.new.state) → store_of (block_at self.new.state.blocks)
            ≡ store_of (disk self.new.state) }
    {
        if self.changed {
            write_head(&mut self.cache, &mut self.head, time);
            self.changed = false;
        }
        self.cache.sync();
    }

    /// The bytes of block `n` on the disk. A block that has changed is written there by a sync, and may be before.
    pub fn on_disk(&self, n: u16) -> &[u8; 512]
        requires { n < DISK_BLOCKS }
        ensures { result.now ≡ block_at self.now.stored n }
    {
        self.cache.on_disk(n)
    }
}
