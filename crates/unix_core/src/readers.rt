//! What a kernel tells of its memory, its table and its disk: the bytes of core and of the swap area, where images stand, the
//! rows by which it chooses who runs, and the blocks that a run leaves.
ghost use Rattle.std.specs.Prelude.{◌≡◌, ◌<◌, ◌≤◌, ◌+◌, ◌*◌, ◌-◌, IsSome, IsSomeAnd, length, slice_index};
ghost use Rattle.fs_codec.specs.declared.layout.TheConstants.{SWAP_START};
ghost use Rattle.buf_cache.specs.Blocks.{block_at};
ghost use Rattle.core_mem.specs.Bytes.{part};
ghost use Rattle.pick_rules.specs.Table.{row_at};
ghost use Rattle.image_keep.specs.declared.memory.TheConstants.{SWAP_BYTES};
ghost use Rattle.image_keep.specs.Kept.{place_of};
ghost use Rattle.image_keep.specs.Holds.{MemoryHolds};

use crate::files::see_procs;
use crate::kernel::Kernel;
use fs_codec::{DISK_BLOCKS, SWAP_START};
use pick_rules::TableRow;
use v6_base::{Place, Slot};

/// Copies so many bytes from a place on.
#[tactic(auto, unfolding(core_mem::specs::Bytes::part))]
fn copy_part(all: &[u8], at: usize, n: usize, out: &mut [u8])
    requires inside { at + n ≤ length all.now }
    requires size { length out.old ≡ n }
    ensures { out.new ≡ part all.now at n }
{
    out.copy_from_slice(&all[at..at + n]);
}

/// The bytes of a block of the swap area, counted from its first one.
fn swap_block(swap: &[u8], n: usize) -> [u8; 512]
    requires { 512 * (n + 1) ≤ length swap.now }
    ensures { result ≡ part swap.now (512 * n) 512 }
{
    let mut block = [0; 512];
    copy_part(swap, 512 * n, 512, &mut block);
    block
}

impl Kernel {
    ghost use Rattle.abstract_unix.specs.Unix.{Started, Finished};
    ghost use Rattle.unix_core.specs.Memory.{kept_in};

    /// The bytes of core: byte 0 of click c is byte 64 * (c - 1). It holds the images and the texts that are there;
    /// between two events of a run that goes on, those of the system, at the places that its board tells.
    pub fn core(&self) -> &[u8]
        ensures bytes { result.now ≡ self.now.core }
        ensures holds { MemoryHolds self.now.core self.now.swap self.now.kept }
        ensures told { self.now.phase ≡ Started → self.now.kept ≡ kept_in self.now.system }
    {
        see_procs(&self.machine.world.procs);
        self.machine.world.procs.images.core()
    }

    /// The bytes of the swap area: byte 0 of block b of the disk is byte 512 * (b - 4000). It holds the images that are out of
    /// core, half of the u area of each process that has ended, and all texts; between two events of a run that goes on, those
    /// of the system.
    pub fn swap(&self) -> &[u8]
        ensures bytes { result.now ≡ self.now.swap }
        ensures holds { MemoryHolds self.now.core self.now.swap self.now.kept }
        ensures told { self.now.phase ≡ Started → self.now.kept ≡ kept_in self.now.system }
    {
        see_procs(&self.machine.world.procs);
        self.machine.world.procs.images.swap()
    }

    /// A byte of core, which holds what `core` says.
    pub fn core_byte(&self, at: u32) -> u8
        requires { at < 64 * self.now.kept.core }
        ensures byte { result ≡ slice_index self.now.core at }
        ensures holds { MemoryHolds self.now.core self.now.swap self.now.kept }
        ensures told { self.now.phase ≡ Started → self.now.kept ≡ kept_in self.now.system }
    {
        self.core()[at as usize]
    }

    /// A byte of the swap area, which holds what `swap` says.
    pub fn swap_byte(&self, at: u32) -> u8
        requires { at < SWAP_BYTES }
        ensures byte { result ≡ slice_index self.now.swap at }
        ensures holds { MemoryHolds self.now.core self.now.swap self.now.kept }
        ensures told { self.now.phase ≡ Started → self.now.kept ≡ kept_in self.now.system }
    {
        self.swap()[at as usize]
    }

    /// Where the image of a slot stands, or what is kept of a process that has ended: nothing, where the slot is free. Between
    /// two events of a run that goes on it is the place that the board of the system tells.
    pub fn place(&self, s: Slot) -> Option<Place>
        requires { s < 50 }
        ensures place { result ≡ place_of self.now.kept s }
        ensures told { self.now.phase ≡ Started → self.now.kept ≡ kept_in self.now.system }
    {
        see_procs(&self.machine.world.procs);
        self.machine.world.procs.images.place(s)
    }

    /// What the kernel knows of the process of a slot, by which it chooses who runs: its state and priority, what it sleeps
    /// for, where its image stands, and its size in clicks of 64 bytes. A free slot has an empty row. `proc.h` in Lions'
    /// Commentary.
    pub fn row(&self, s: Slot) -> TableRow
        requires { s < 50 }
        ensures { result ≡ row_at self.now.system.board.table s }
    {
        self.machine.world.procs.table.rows[s as usize]
    }

    /// What the disk holds of block `n` at this moment: below block 4000 what has been written to it so far, from block 4000 on
    /// what the swap area holds.
    pub fn disk_block(&self, n: u16) -> [u8; 512]
        requires { n < DISK_BLOCKS }
        ensures below { n < SWAP_START → result ≡ block_at self.now.stored.root n }
        ensures swapped { SWAP_START ≤ n → result ≡ part self.now.swap (512 * (n - SWAP_START)) 512 }
    {
        if n < SWAP_START {
            *self.machine.world.files.tree.nodes.on_disk(0, n)
        } else {
            swap_block(self.swap(), usize::from(n - SWAP_START))
        }
    }

    /// Block `n` of the disk, as a run that has been finished leaves it: what the disk holds of it then.
    pub fn final_block(&self, n: u16) -> [u8; 512]
        requires finished { self.now.phase ≡ Finished }
        requires block { n < DISK_BLOCKS }
        ensures below { n < SWAP_START → result ≡ block_at self.now.stored.root n }
        ensures swapped { SWAP_START ≤ n → result ≡ part self.now.swap (512 * (n - SWAP_START)) 512 }
    {
        self.disk_block(n)
    }

    /// Block `n` of the second disk, as a run that has been finished leaves it: where the system has a second disk, the kernel
    /// has its blocks.
    pub fn second_block(&self, n: u16) -> [u8; 512]
        requires finished { self.now.phase ≡ Finished }
        requires block { n < DISK_BLOCKS }
        requires second { IsSome self.now.system.unix.store.second }
        ensures { IsSomeAnd self.now.stored.second (λ stored. result ≡ block_at stored n) }
    {
        *self.machine.world.files.tree.nodes.on_disk(1, n)
    }
}
