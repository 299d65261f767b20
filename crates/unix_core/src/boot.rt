//! What a kernel begins with.
ghost use Rattle.std.specs.Prelude.{◌≡◌, ◌⊎◌, ◌==◌, if◌then◌else◌, ℕ, ◌≤◌, IfOk, IfErr, Some, None, OnOk, slice_index, length, ◌++◌, ◌<◌, ◌^◌};
ghost use Rattle.v6_base.specs.Tape.{blank};
ghost use Rattle.fs_codec.specs.Disk.{disk_of};
ghost use Rattle.fs_codec.specs.Faults.{image_fault, fault_within};
ghost use Rattle.fs_codec.specs.Stands.{store_of};
ghost use Rattle.fs_codec.specs.Words.{bytes_from};
ghost use Rattle.fs_codec.specs.declared.layout.TheConstants.{DISK_BLOCKS};
ghost use Rattle.fs_nodes.specs.Keys.{key_count};
ghost use Rattle.fs_tree.specs.Mounting.{AreMounts};
ghost use Rattle.image_keep.specs.Holds.{MemoryHolds};
ghost use Rattle.abstract_unix.specs.Runs.{stores_of};
ghost use Rattle.unix_core.specs.Parts.{AreFirst};
ghost use Rattle.unix_core.specs.Boots.{counted_fault, second_fault_of, blocks_on, swap_on, core_on};

use crate::files::take_root;
use crate::kernel::{Kernel, Rooms, first_procs};
use buf_cache::{Cache, Disk};
use fs_blocks::Volume;
use fs_check::{ImageFault, accept, accept_second};
use fs_codec::{BLOCK_INODES, BLOCK_SIZE, SWAP_START, read_bytes, super_in};
use fs_nodes::Nodes;
use image_keep::{Images, SWAP_BYTES};
use mount_tab::Mounts;
use pdp_decode::Dispatch;
use std::alloc::{AllocError, Global};
use v6_base::{LINES, Tape};

/// The room of the tape for what a call on files shows: none has so many lines, or so many bytes.
const TAPE_ENTRIES: usize = 64;

const TAPE_BYTES: usize = 524288;

/// Where the swap area begins on the disk, in bytes.
const SWAP_AT: usize = BLOCK_SIZE * SWAP_START as usize;

/// How many blocks it has.
const SWAP_BLOCKS: usize = SWAP_BYTES / BLOCK_SIZE;

/// Why there is no kernel for an image.
#[derive(Clone, Copy, Debug, PartialEq, Eq)]
pub enum BootFault {
    /// The image has this fault.
    Image(ImageFault),
    /// There is no memory for it.
    NoMemory,
}

/// Why there is no second disk.
#[derive(Clone, Copy, Debug, PartialEq, Eq)]
pub enum SecondFault {
    /// Its image has this fault.
    Image(ImageFault),
    /// There are so many inodes on both disks, more than there are numbers by which the kernel could know them: 65,535.
    Nodes(u32),
}

/// Why there is no kernel for two images.
#[derive(Clone, Copy, Debug, PartialEq, Eq)]
pub enum Boot2Fault {
    /// The image of the root's disk has this fault.
    Image(ImageFault),
    /// The image of the second one has this.
    Second(SecondFault),
    /// There is no memory for them.
    NoMemory,
}

/// The file system on the disk of an image without a fault, with the root taken, and its time. It stands out of line, as the
/// next does, so that its frame doesn't lie beside a kernel.
#[inline(never)]
fn file_system_of(alloc: Global, image: &[u8]) -> Result<(Nodes, u32), AllocError>
    requires { image_fault image.now ≡ None }
    ensures store { IfOk result (λ made. made.0.store ≡ stores_of image.now None) }
    ensures referred { IfOk result (λ made. (ino : ℕ) → slice_index made.0.references ino ≡ (if ino == 1 then 2 else 0)) }
    ensures blocks { IfOk result (λ made. made.0.blocks ≡ blocks_on image.now None) }
    ensures stored { IfOk result (λ made. made.0.stored ≡ blocks_on image.now None) }
    ensures time { IfOk result (λ made. made.1 ≡ (store_of (disk_of image.now)).stamp) }
{
    let disk = Disk::from_bytes(alloc, image)?;
    let cache = Cache::new(alloc, disk)?;
    let volume = Volume::open_on(cache);
    let time = volume.head().time;
    let mut nodes = Nodes::new(volume);
    take_root(&mut nodes);
    Ok((nodes, time))
}

/// The file systems on the disks of two images without a fault, with the root taken, and the time of the first.
#[inline(never)]
fn file_systems_of(alloc: Global, image: &[u8], second: &[u8]) -> Result<(Nodes, u32), AllocError>
    requires root { image_fault image.now ≡ None }
    requires second { fault_within DISK_BLOCKS second.now ≡ None }
    requires few { key_count (stores_of image.now (Some second.now)) ≤ 65535 }
    ensures store { IfOk result (λ made. made.0.store ≡ stores_of image.now (Some second.now)) }
    ensures referred { IfOk result (λ made. (ino : ℕ) → slice_index made.0.references ino ≡ (if ino == 1 then 2 else 0)) }
    ensures blocks { IfOk result (λ made. made.0.blocks ≡ blocks_on image.now (Some second.now)) }
    ensures stored { IfOk result (λ made. made.0.stored ≡ blocks_on image.now (Some second.now)) }
    ensures time { IfOk result (λ made. made.1 ≡ (store_of (disk_of image.now)).stamp) }
{
    let disk = Disk::from_bytes(alloc, image)?;
    let cache = Cache::new(alloc, disk)?;
    let volume = Volume::open_on(cache);
    let time = volume.head().time;
    let disk = Disk::from_bytes(alloc, second)?;
    let cache = Cache::new(alloc, disk)?;
    let mut nodes = Nodes::new2(volume, Volume::open_on(cache));
    take_root(&mut nodes);
    Ok((nodes, time))
}

/// How many inodes the disk of an image has.
fn inode_count(image: &[u8]) -> u32
    ensures count { result ≡ (store_of (disk_of image.now)).count }
    ensures most { result ≤ 1048560 }
{
    u32::from(BLOCK_INODES) * u32::from(super_in(image).i_size)
}

/// What is wrong where both disks have so many inodes.
fn counted_fault(count: u32) -> Option<SecondFault>
    ensures { result ≡ counted_fault count }
{
    if count > 65535 {
        Some(SecondFault::Nodes(count))
    } else {
        None
    }
}

/// What is wrong with the image of a second disk, beside the image of the root's: its first fault, or else that both disks have
/// more inodes than there are numbers by which the kernel could know them.
pub fn second_fault(image: &[u8], second: &[u8]) -> Option<SecondFault>
    ensures { result ≡ second_fault_of image.now second.now }
{
    match accept_second(second) {
        Ok(()) => counted_fault(inode_count(image) + inode_count(second)),
        Err(fault) => Some(SecondFault::Image(fault)),
    }
}

/// A number that is a word.
fn word(n: u32) -> u16
    requires { n ≤ 65535 }
    ensures { result ≡ n }
{
    n as u16
}

/// The mount table of one disk.
fn one_mounts(nodes: &Nodes) -> Mounts
    requires one { nodes.now.store.second ≡ None }
    requires few { nodes.now.store.root.count ≤ 65535 }
    ensures mounts { AreMounts result nodes.now.store }
    ensures uncovered { result.covered ≡ None }
{
    let first = word(nodes.root_count());
    Mounts::new(first, 0)
}

/// The mount table of the disks of two images. Nothing is mounted.
fn two_mounts(image: &[u8], second: &[u8]) -> Mounts
    requires { key_count (stores_of image.now (Some second.now)) ≤ 65535 }
    ensures mounts { AreMounts result (stores_of image.now (Some second.now)) }
    ensures uncovered { result.covered ≡ None }
{
    let first = word(inode_count(image));
    let other = word(inode_count(second));
    Mounts::new(first, other)
}

/// Puts the bytes of a block, which begins at a place of an image, after those that are there.
fn push_block(bytes: &mut Vec<u8>, image: &[u8], at: usize) -> Result<(), AllocError>
    requires { at < 2 ^ 32 }
    ensures { OnOk result (bytes.new.items ≡ bytes.old.items ++ bytes_from image.now at BLOCK_SIZE) }
{
    let mut block = [0; BLOCK_SIZE];
    read_bytes(image, at, &mut block);
    bytes.extend_from_slice(&block)
}

/// The swap area of a disk with an image: its blocks as the image has them, and zeros where the image ends before.
fn swap_area(alloc: Global, image: &[u8]) -> Result<Vec<u8>, AllocError>
    ensures bytes { IfOk result (λ swap. swap.items ≡ swap_on image.now) }
    ensures size { IfOk result (λ swap. length swap.items ≡ SWAP_BYTES) }
{
    let mut swap = Vec::with_capacity(alloc, SWAP_BYTES)?;
    for n in 0..SWAP_BLOCKS {
        push_block(&mut swap, image, SWAP_AT + BLOCK_SIZE * n)?;
    }
    Ok(swap)
}

/// Sees what core and the swap area hold.
fn see_memory(images: &Images)
    ensures { MemoryHolds images.now.core images.now.swap images.now.kept }
{
    let _core = images.core();
}

/// Takes the memory of a kernel with so many clicks of core, on the swap area of an image. It stands out of line, so that its
/// frame doesn't lie beside a kernel.
#[inline(never)]
fn rooms_of(alloc: Global, image: &[u8], time: u32, core: u16) -> Result<Rooms, AllocError>
    requires least { 64 ≤ core }
    requires most { core ≤ 3968 }
    ensures procs { IfOk result (λ rooms. AreFirst rooms.procs core time) }
    ensures swap { IfOk result (λ rooms. rooms.procs.images.swap ≡ swap_on image.now) }
    ensures core { IfOk result (λ rooms. rooms.procs.images.core ≡ core_on core) }
    ensures tape { IfOk result (λ rooms. rooms.tape ≡ blank TAPE_ENTRIES TAPE_BYTES) }
{
    let swap = swap_area(alloc, image)?;
    let images = Images::new(alloc, core, &swap)?;
    let tape = Tape::new(alloc, TAPE_ENTRIES, TAPE_BYTES)?;
    let dispatch = Dispatch::new(alloc)?;
    let procs = first_procs(images, time);
    see_memory(&procs.images);
    Ok(Rooms {
        procs,
        tape,
        dispatch,
    })
}

impl Kernel {
    ghost use Rattle.unix_core.specs.Boots.{RefusesBoot, RefusesBoot2};
    ghost use Rattle.abstract_unix.specs.Unix.{New};
    ghost use Rattle.abstract_unix.specs.Runs.{boots};

    /// Makes the kernel for a disk image, so many clicks of core and so many terminal lines, before the start of its run.
    ///
    /// It keeps a disk of its own, and takes all the memory that it will ever use.
    #[inline(never)]
    pub fn boot_with(alloc: Global, image: &[u8], core: u16, lines: u8) -> Result<Kernel, BootFault>
        requires least { 64 ≤ core }
        requires most { core ≤ 3968 }
        requires lines { (lines ≡ 1) ⊎ (lines ≡ 8) }
        ensures system { IfOk result (λ kernel. boots image.now None core lines ≡ Some kernel.system) }
        ensures blocks { IfOk result (λ kernel. kernel.blocks ≡ blocks_on image.now None) }
        ensures stored { IfOk result (λ kernel. kernel.stored ≡ blocks_on image.now None) }
        ensures swap { IfOk result (λ kernel. kernel.swap ≡ swap_on image.now) }
        ensures core { IfOk result (λ kernel. kernel.core ≡ core_on core) }
        ensures phase { IfOk result (λ kernel. kernel.phase ≡ New) }
        ensures refused { IfErr result (RefusesBoot image.now) }
    {
        if let Err(fault) = accept(image) {
            return Err(BootFault::Image(fault));
        }
        let Ok((nodes, time)) = file_system_of(alloc, image) else {
            return Err(BootFault::NoMemory);
        };
        let Ok(rooms) = rooms_of(alloc, image, time, core) else {
            return Err(BootFault::NoMemory);
        };
        let mounts = one_mounts(&nodes);
        Kernel::new(rooms, nodes, mounts, core, lines)
    }

    /// Makes the kernel for a disk image and so many clicks of core, before the start of its run. It has one terminal line, the
    /// console.
    ///
    /// It keeps a disk of its own, and takes all the memory that it will ever use.
    pub fn boot(alloc: Global, image: &[u8], core: u16) -> Result<Kernel, BootFault>
        requires least { 64 ≤ core }
        requires most { core ≤ 3968 }
        ensures system { IfOk result (λ kernel. boots image.now None core 1 ≡ Some kernel.system) }
        ensures blocks { IfOk result (λ kernel. kernel.blocks ≡ blocks_on image.now None) }
        ensures stored { IfOk result (λ kernel. kernel.stored ≡ blocks_on image.now None) }
        ensures swap { IfOk result (λ kernel. kernel.swap ≡ swap_on image.now) }
        ensures core { IfOk result (λ kernel. kernel.core ≡ core_on core) }
        ensures phase { IfOk result (λ kernel. kernel.phase ≡ New) }
        ensures refused { IfErr result (RefusesBoot image.now) }
    {
        Kernel::boot_with(alloc, image, core, 1)
    }

    /// The same with eight terminal lines, of which line 0 is the console: `klopen` in Lions' Commentary, `kl.c`.
    pub fn boot8(alloc: Global, image: &[u8], core: u16) -> Result<Kernel, BootFault>
        requires least { 64 ≤ core }
        requires most { core ≤ 3968 }
        ensures system { IfOk result (λ kernel. boots image.now None core LINES ≡ Some kernel.system) }
        ensures blocks { IfOk result (λ kernel. kernel.blocks ≡ blocks_on image.now None) }
        ensures stored { IfOk result (λ kernel. kernel.stored ≡ blocks_on image.now None) }
        ensures swap { IfOk result (λ kernel. kernel.swap ≡ swap_on image.now) }
        ensures core { IfOk result (λ kernel. kernel.core ≡ core_on core) }
        ensures phase { IfOk result (λ kernel. kernel.phase ≡ New) }
        ensures refused { IfErr result (RefusesBoot image.now) }
    {
        Kernel::boot_with(alloc, image, core, LINES)
    }

    /// Makes the kernel for two disk images, so many clicks of core and so many terminal lines, before the start of its run.
    /// The second disk is mounted nowhere.
    ///
    /// It keeps disks of its own, and takes all the memory that it will ever use.
    #[inline(never)]
    pub fn boot2_with(
        alloc: Global,
        image: &[u8],
        second: &[u8],
        core: u16,
        lines: u8,
    ) -> Result<Kernel, Boot2Fault>
        requires least { 64 ≤ core }
        requires most { core ≤ 3968 }
        requires lines { (lines ≡ 1) ⊎ (lines ≡ 8) }
        ensures system { IfOk result (λ kernel. boots image.now (Some second.now) core lines ≡ Some kernel.system) }
        ensures blocks { IfOk result (λ kernel. kernel.blocks ≡ blocks_on image.now (Some second.now)) }
        ensures stored { IfOk result (λ kernel. kernel.stored ≡ blocks_on image.now (Some second.now)) }
        ensures swap { IfOk result (λ kernel. kernel.swap ≡ swap_on image.now) }
        ensures core { IfOk result (λ kernel. kernel.core ≡ core_on core) }
        ensures phase { IfOk result (λ kernel. kernel.phase ≡ New) }
        ensures refused { IfErr result (RefusesBoot2 image.now second.now) }
    {
        if let Err(fault) = accept(image) {
            return Err(Boot2Fault::Image(fault));
        }
        if let Some(fault) = second_fault(image, second) {
            return Err(Boot2Fault::Second(fault));
        }
        let Ok((nodes, time)) = file_systems_of(alloc, image, second) else {
            return Err(Boot2Fault::NoMemory);
        };
        let Ok(rooms) = rooms_of(alloc, image, time, core) else {
            return Err(Boot2Fault::NoMemory);
        };
        let mounts = two_mounts(image, second);
        Kernel::new(rooms, nodes, mounts, core, lines)
    }

    /// Makes the kernel for two disk images and so many clicks of core, before the start of its run. The second disk is mounted
    /// nowhere, and there is one terminal line, the console.
    ///
    /// It keeps disks of its own, and takes all the memory that it will ever use.
    pub fn boot2(
        alloc: Global,
        image: &[u8],
        second: &[u8],
        core: u16,
    ) -> Result<Kernel, Boot2Fault>
        requires least { 64 ≤ core }
        requires most { core ≤ 3968 }
        ensures system { IfOk result (λ kernel. boots image.now (Some second.now) core 1 ≡ Some kernel.system) }
        ensures blocks { IfOk result (λ kernel. kernel.blocks ≡ blocks_on image.now (Some second.now)) }
        ensures stored { IfOk result (λ kernel. kernel.stored ≡ blocks_on image.now (Some second.now)) }
        ensures swap { IfOk result (λ kernel. kernel.swap ≡ swap_on image.now) }
        ensures core { IfOk result (λ kernel. kernel.core ≡ core_on core) }
        ensures phase { IfOk result (λ kernel. kernel.phase ≡ New) }
        ensures refused { IfErr result (RefusesBoot2 image.now second.now) }
    {
        Kernel::boot2_with(alloc, image, second, core, 1)
    }
}
