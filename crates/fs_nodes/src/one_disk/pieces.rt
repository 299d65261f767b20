//! Reads and writes of files, piece by piece: readi and writei in Lions' Commentary, `rdwri.c`.
ghost use Rattle.std.specs.Prelude.{◌≡◌, ◌≢◌, ◌+◌, ◌-◌, ◌*◌, ◌/◌, ◌%◌, ◌<◌, ◌≤◌, if◌then◌else◌, max, IfSome, is_some, true, false, length, slice_range, Some, None};
ghost use Rattle.v6_base.specs.Copy.{store_bytes};
ghost use Rattle.buf_cache.specs.Blocks.{block_at};
ghost use Rattle.fs_codec.specs.Fields.{fields_of};
ghost use Rattle.fs_codec.specs.Modes.{is_device, is_directory};
ghost use Rattle.fs_codec.specs.Held.{addresses};
ghost use Rattle.fs_codec.specs.Stands.{body_of};
ghost use Rattle.fs_laws.specs.Whole.{IsApart};
ghost use Rattle.fs_laws.specs.Block.{IsBlock};
ghost use Rattle.fs_laws.specs.Pieces.{pieces, piece_end, reading, writing};
ghost use Rattle.fs_blocks.specs.State.{disk};
ghost use Rattle.fs_nodes.specs.Copy.{put_into, get_from, put_kernel, get_kernel};
ghost use Rattle.fs_nodes.specs.one_disk.Moves.{moving, IsFile, Touched, Wrote, Grew, Comes};

use crate::one_disk::inodes::see;
use fs_blocks::Volume;
use fs_codec::{DiskNode, is_directory};
use v6_base::{Errno, Space};

/// How many bytes a read or a write has moved, and the error that ended it.
#[derive(Clone, Copy, Debug, PartialEq, Eq)]
pub struct Moved {
    pub done: u16,
    pub error: Option<Errno>,
}

/// Where the piece that begins at a byte of a file ends: with its block, or with the last piece.
fn piece_end(at: u64, end: u64) -> u64
    requires below { at < end }
    requires small { end ≤ 4295032830 }
    ensures is { result ≡ piece_end at end }
    ensures more { at < result }
    ensures within { result ≤ end }
    ensures block { result ≤ 512 * (at / 512) + 512 }
{
    end.min(512 * (at / 512 + 1))
}

/// Touches the block of a byte of a file. None where no block is free.
fn touch_block(volume: &mut Volume, node: &mut DiskNode, at: u64) -> Option<u16>
    requires file { is_device node.old.mode ≡ false }
    requires used { node.old.mode ≢ 0 }
    requires apart { IsApart (disk volume.old.state) (addresses (disk volume.old.state) (fields_of node.old)) }
    requires end { at < 16777216 }
    ensures touched { Touched volume.old.state (fields_of node.old) (at / 512) volume.new.state (fields_of node.new) (is_some result) }
    ensures file { IsFile volume.new.state (fields_of node.new) }
    ensures block { IfSome result (λ b. IsBlock (disk volume.new.state) (fields_of node.new) (at / 512) b × (b < 4872)) }
{
    let taken = volume.touch(node, (at / 512) as u32);
    see(volume);
    match taken {
        Ok(b) => Some(b),
        Err(_) => None,
    }
}

/// Touches the block of a piece of a file and copies the bytes of the piece. False where no block is free.
fn read_piece(volume: &mut Volume, node: &mut DiskNode, at: u64, into: &mut [u8]) -> bool
    requires file { is_device node.old.mode ≡ false }
    requires used { node.old.mode ≢ 0 }
    requires apart { IsApart (disk volume.old.state) (addresses (disk volume.old.state) (fields_of node.old)) }
    requires within { at % 512 + length into.old ≤ 512 }
    requires end { at < 16777216 }
    ensures long { length into.new ≡ length into.old }
    ensures touched { Touched volume.old.state (fields_of node.old) (at / 512) volume.new.state (fields_of node.new) result }
    ensures bytes { result ≡ true → into.new ≡ slice_range (body_of (disk volume.new.state) (fields_of node.new)) at (at + length into.old) }
    ensures kept { result ≡ false → into.new ≡ into.old }
{
    let Some(b) = touch_block(volume, node, at) else {
        return false;
    };
    let from = (at % 512) as usize;
    let block = volume.block(b);
    into.copy_from_slice(&block[from..from + into.len()]);
    true
}

/// Copies the bytes of a piece of a file, which lie in a block, into the memory of a process, whole or not at all: false where
/// an address can't be written.
fn copy_piece<S: Space>(
    volume: &mut Volume,
    b: u16,
    from: u64,
    next: u64,
    space: &mut S,
    at: u16,
) -> bool
    requires low { b < 4872 }
    requires more { from ≤ next }
    requires within { from % 512 + (next - from) ≤ 512 }
    ensures done { result ≡ true → store_bytes (S.image space.old) at (slice_range (block_at volume.old.state.blocks b) (from % 512) (from % 512 + (next - from))) ≡ Some (S.image space.new) }
    ensures refused { result ≡ false → store_bytes (S.image space.old) at (slice_range (block_at volume.old.state.blocks b) (from % 512) (from % 512 + (next - from))) ≡ None }
    ensures kept { result ≡ false → S.image space.new ≡ S.image space.old }
    ensures rest { S.rest space.new ≡ S.rest space.old }
    ensures same { volume.new.state ≡ volume.old.state }
{
    let first = (from % 512) as usize;
    let block = volume.block(b);
    space.copy_out(at, &block[first..first + (next - from) as usize])
}

/// Reads bytes of a file into the memory of a process, piece by piece.
pub(crate) fn read_pieces<S: Space>(
    volume: &mut Volume,
    node: &mut DiskNode,
    offset: u64,
    end: u64,
    space: &mut S,
    at: u16,
) -> Moved
    requires file { is_device node.old.mode ≡ false }
    requires used { node.old.mode ≢ 0 }
    requires apart { IsApart (disk volume.old.state) (addresses (disk volume.old.state) (fields_of node.old)) }
    requires small { end ≤ 16777215 }
    requires few { end ≤ offset + 65535 }
    ensures comes { Comes volume.new.state (fields_of node.new) (reading (put_into at) (pieces offset end) (moving volume.old.state (fields_of node.old) (S.image space.old) 0)) (S.image space.new) result.done result.error }
    ensures grew { Grew volume.old.state (fields_of node.old) volume.new.state (fields_of node.new) }
    ensures rest { S.rest space.new ≡ S.rest space.old }
{
    let mut from = offset;
    while from < end {
        let next = piece_end(from, end);
        let done = (from - offset) as u16;
        let Some(b) = touch_block(volume, node, from) else {
            return Moved {
                done,
                error: Some(Errno::ENOSPC),
            };
        };
        if !copy_piece(volume, b, from, next, space, at.wrapping_add(done)) {
            return Moved {
                done,
                error: Some(Errno::EFAULT),
            };
        }
        from = next;
    }
    Moved {
        done: (from - offset) as u16,
        error: None,
    }
}

/// Reads bytes of a file into the kernel's own memory, piece by piece.
pub(crate) fn read_pieces_kernel(
    volume: &mut Volume,
    node: &mut DiskNode,
    offset: u64,
    end: u64,
    buf: &mut [u8],
) -> Moved
    requires file { is_device node.old.mode ≡ false }
    requires used { node.old.mode ≢ 0 }
    requires apart { IsApart (disk volume.old.state) (addresses (disk volume.old.state) (fields_of node.old)) }
    requires small { end ≤ 16777215 }
    requires room { end ≤ offset + length buf.old }
    requires few { length buf.old ≤ 65535 }
    ensures comes { Comes volume.new.state (fields_of node.new) (reading put_kernel (pieces offset end) (moving volume.old.state (fields_of node.old) buf.old 0)) buf.new result.done result.error }
    ensures grew { Grew volume.old.state (fields_of node.old) volume.new.state (fields_of node.new) }
{
    let mut from = offset;
    while from < end {
        let next = piece_end(from, end);
        let len = (next - from) as usize;
        let done = (from - offset) as usize;
        if !read_piece(volume, node, from, &mut buf[done..done + len]) {
            return Moved {
                done: done as u16,
                error: Some(Errno::ENOSPC),
            };
        }
        from = next;
    }
    Moved {
        done: (from - offset) as u16,
        error: None,
    }
}

/// The greatest size that a write may give a file.
fn write_limit(node: &DiskNode) -> u64
    ensures { result ≡ (if is_directory node.now.mode then max 65520 node.now.size else 16777215) }
{
    if is_directory(node.mode) {
        u64::from(node.size).max(65520)
    } else {
        16_777_215
    }
}

/// Puts bytes into a block that a file has.
fn write_piece(volume: &mut Volume, node: &mut DiskNode, b: u16, at: u64, bytes: &[u8])
    requires file { IsFile volume.old.state (fields_of node.old) }
    requires block { IsBlock (disk volume.old.state) (fields_of node.old) (at / 512) b }
    requires below { b < 4872 }
    requires within { at % 512 + length bytes.now ≤ 512 }
    requires end { at + length bytes.now ≤ 16777215 }
    ensures wrote { Wrote volume.old.state (fields_of node.old) at bytes.now volume.new.state (fields_of node.new) }
    ensures mode { node.new.mode ≡ node.old.mode }
{
    volume.change(b, (at % 512) as u16, bytes);
    let end = at as u32 + bytes.len() as u32;
    node.size = node.size.max(end);
}

/// Writes bytes from the memory of a process into a file, piece by piece.
pub(crate) fn write_pieces<S: Space>(
    volume: &mut Volume,
    node: &mut DiskNode,
    offset: u64,
    end: u64,
    space: &S,
    at: u16,
) -> Moved
    requires file { is_device node.old.mode ≡ false }
    requires used { node.old.mode ≢ 0 }
    requires apart { IsApart (disk volume.old.state) (addresses (disk volume.old.state) (fields_of node.old)) }
    requires small { end ≤ 4295032830 }
    requires few { end ≤ offset + 65535 }
    ensures comes { Comes volume.new.state (fields_of node.new) (writing (get_from (S.image space.now) at) (pieces offset end) (moving volume.old.state (fields_of node.old) (tt {0}) 0)) (tt {0}) result.done result.error }
    ensures grew { Grew volume.old.state (fields_of node.old) volume.new.state (fields_of node.new) }
{
    let mut piece = [0; 512];
    let mut from = offset;
    while from < end {
        let next = piece_end(from, end);
        let len = (next - from) as usize;
        let done = (from - offset) as u16;
        if write_limit(node) < next {
            return Moved {
                done,
                error: Some(Errno::EFBIG),
            };
        }
        let Some(b) = touch_block(volume, node, from) else {
            return Moved {
                done,
                error: Some(Errno::ENOSPC),
            };
        };
        if !space.copy_in(at.wrapping_add(done), &mut piece[0..len]) {
            return Moved {
                done,
                error: Some(Errno::EFAULT),
            };
        }
        write_piece(volume, node, b, from, &piece[0..len]);
        from = next;
    }
    Moved {
        done: (from - offset) as u16,
        error: None,
    }
}

/// Writes bytes of the kernel's own memory into a file, piece by piece.
pub(crate) fn write_pieces_kernel(
    volume: &mut Volume,
    node: &mut DiskNode,
    offset: u64,
    end: u64,
    buf: &[u8],
) -> Moved
    requires file { is_device node.old.mode ≡ false }
    requires used { node.old.mode ≢ 0 }
    requires apart { IsApart (disk volume.old.state) (addresses (disk volume.old.state) (fields_of node.old)) }
    requires small { end ≤ 4295032830 }
    requires room { end ≤ offset + length buf.now }
    requires few { length buf.now ≤ 65535 }
    ensures comes { Comes volume.new.state (fields_of node.new) (writing (get_kernel buf.now) (pieces offset end) (moving volume.old.state (fields_of node.old) (tt {0}) 0)) (tt {0}) result.done result.error }
    ensures grew { Grew volume.old.state (fields_of node.old) volume.new.state (fields_of node.new) }
{
    let mut from = offset;
    while from < end {
        let next = piece_end(from, end);
        let len = (next - from) as usize;
        let done = (from - offset) as usize;
        if write_limit(node) < next {
            return Moved {
                done: done as u16,
                error: Some(Errno::EFBIG),
            };
        }
        let Some(b) = touch_block(volume, node, from) else {
            return Moved {
                done: done as u16,
                error: Some(Errno::ENOSPC),
            };
        };
        write_piece(volume, node, b, from, &buf[done..done + len]);
        from = next;
    }
    Moved {
        done: (from - offset) as u16,
        error: None,
    }
}
