//! A file takes the blocks on the way to one of its blocks.

ghost use Rattle.std.specs.Prelude.{◌≡◌, ◌≢◌, ◌<◌, ◌≤◌, MatchResult, is_ok, false};
ghost use Rattle.v6_base.specs.declared.errno.Errno.{Errno};
ghost use Rattle.fs_codec.specs.Modes.{is_device};
ghost use Rattle.fs_codec.specs.Fields.{fields_of};
ghost use Rattle.fs_codec.specs.Held.{address, addresses};
ghost use Rattle.bmap_path.specs.declared.BlockName.TheVariants.{Data};
ghost use Rattle.fs_laws.specs.Whole.{IsApart};
ghost use Rattle.fs_laws.specs.Grows.{IsPlace, IsOpen};
ghost use Rattle.fs_blocks.specs.State.{disk, Fits};
ghost use Rattle.fs_blocks.specs.Steps.{HoldsOrLacks};
ghost use Rattle.fs_blocks.specs.Touch.{TakesPath};

use crate::touch_gains::gain;
use crate::touch_reads::{block_of, see_addresses};
use crate::volume::Volume;
use bmap_path::{BlockName, SMALL_BLOCKS, path};
use fs_codec::{DiskNode, is_large};
use v6_base::Errno;

/// The block of a name: the one that the file has, or else the first free block.
fn take(volume: &mut Volume, node: &mut DiskNode, name: BlockName) -> Result<u16, Errno>
    requires apart { IsApart (disk volume.old.state) (addresses (disk volume.old.state) (fields_of node.old)) }
    requires place { IsPlace name }
    requires open { IsOpen (disk volume.old.state) (fields_of node.old) name }
    ensures taken { HoldsOrLacks volume.old.state (fields_of node.old) volume.new.state (fields_of node.new) name result }
    ensures before { Fits volume.old.state.head }
    ensures behind { Fits volume.new.state.head }
{
    volume.see();
    let held = block_of(volume, node, name);
    if held != 0 {
        return Ok(held);
    }
    let taken = gain(volume, node, name);
    volume.see();
    taken
}

/// The address of block `bn` of a file, where what the file lacks on the way to it is taken first.
#[inline(never)]
fn take_path(volume: &mut Volume, node: &mut DiskNode, bn: u16) -> Result<u16, Errno>
    requires file { is_device node.old.mode ≡ false }
    requires apart { IsApart (disk volume.old.state) (addresses (disk volume.old.state) (fields_of node.old)) }
    requires low { bn ≤ 32767 }
    ensures takes { TakesPath volume.old.state (fields_of node.old) bn volume.new.state (fields_of node.new) (is_ok result) }
    ensures answer { MatchResult result
        (λ b. (b ≡ address (disk volume.new.state) (fields_of node.new) (Data bn)) × (b ≢ 0))
        (λ e. e ≡ Errno.ENOSPC) }
{
    see_addresses(&node.addr);
    let names = path(is_large(node.mode), bn);
    let mut block = 0;
    for name in names.as_slice() {
        block = take(volume, node, *name)?;
    }
    Ok(block)
}

impl Volume {
    /// The address of block `bn` of a file that is no device: the file's bytes from `512 * bn` on. What the file
    /// lacks on the way to it is taken first, a block that is to have an address before the block at that address. A
    /// data block that is taken is all zeros. A small file that takes a block behind its eighth becomes large. File
    /// system(V), and `bmap` in Lions' Commentary, `subr.c`.
    ///
    /// # Errors
    ///
    /// `EFBIG` where `bn` exceeds 32767. `ENOSPC` where fewer blocks are free than the file lacks on that way; it keeps
    /// what it took.
    pub fn touch(&mut self, node: &mut DiskNode, bn: u32) -> Result<u16, Errno>
        requires file { is_device node.old.mode ≡ false }
        requires apart { IsApart (disk self.old.state) (addresses (disk self.old.state) (fields_of node.old)) }
        ensures large { 32767 < bn → (result ≡ Err Errno.EFBIG) × (self.new.state ≡ self.old.state)
            × (node.new ≡ node.old) }
        ensures takes { bn ≤ 32767 →
            TakesPath self.old.state (fields_of node.old) bn self.new.state (fields_of node.new) (is_ok result) }
        ensures answer { bn ≤ 32767 → MatchResult result
            (λ b. (b ≡ address (disk self.new.state) (fields_of node.new) (Data bn)) × (b ≢ 0))
            (λ e. e ≡ Errno.ENOSPC) }
    {
        if bn > 32767 {
            return Err(Errno::EFBIG);
        }
        see_addresses(&node.addr);
        if !is_large(node.mode) && bn < u32::from(SMALL_BLOCKS) {
            let block = node.addr[bn as usize];
            if block != 0 {
                return Ok(block);
            }
        }
        take_path(self, node, bn as u16)
    }
}
