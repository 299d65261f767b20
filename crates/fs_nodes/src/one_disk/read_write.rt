//! Reads and writes of an inode's file: readi and writei in Lions' Commentary, `rdwri.c`.
ghost use Rattle.std.specs.Prelude.{◌≡◌, ◌≢◌, ◌+◌, ◌<◌, ◌≤◌, ◌==◌, if◌then◌else◌, min, false, length, slice_index, Some};
ghost use Rattle.fs_codec.specs.Fields.{fields_of};
ghost use Rattle.fs_codec.specs.Modes.{is_device};
ghost use Rattle.fs_codec.specs.Held.{addresses};
ghost use Rattle.fs_codec.specs.Store.{Node, node_numbered};
ghost use Rattle.fs_laws.specs.Chain.{free};
ghost use Rattle.fs_laws.specs.Whole.{IsApart};
ghost use Rattle.fs_laws.specs.Pieces.{read_file, write_file};
ghost use Rattle.fs_laws.specs.Keys.{room_at};
ghost use Rattle.fs_blocks.specs.State.{disk};
ghost use Rattle.fs_nodes.specs.Copy.{put_into, get_from, put_kernel, get_kernel};
ghost use Rattle.fs_nodes.specs.one_disk.FileSystem.{SameRest};
ghost use Rattle.fs_nodes.specs.one_disk.Moves.{file_of, Ends, Moves};

use crate::one_disk::inodes::{see, see_addresses};
use crate::one_disk::nodes::DiskNodes;
use crate::one_disk::pieces::{
    Moved, read_pieces, read_pieces_kernel, write_pieces, write_pieces_kernel,
};
use crate::one_disk::table::{carry_inode, inode_of, place};
use fs_blocks::Volume;
use fs_codec::{DiskNode, is_device};
use v6_base::Space;

/// Where a call has done nothing.
const NOTHING: Moved = Moved {
    done: 0,
    error: None,
};

/// Sets the time of access, where there are bytes to be read.
fn set_access(node: &mut DiskNode, count: u16, time: u32)
    ensures { fields_of node.new ≡ record (fields_of node.old) { actime = if count == 0 then node.old.actime else time; modtime = node.old.modtime } }
{
    if count != 0 {
        node.actime = time;
    }
}

/// Sets both times, where there are bytes to be written.
fn set_times(node: &mut DiskNode, count: u16, time: u32)
    ensures { fields_of node.new ≡ record (fields_of node.old) { actime = if count == 0 then node.old.actime else time; modtime = if count == 0 then node.old.modtime else time } }
{
    if count != 0 {
        node.actime = time;
        node.modtime = time;
    }
}

/// Where a read ends: with the bytes that are asked for, or with the file.
fn read_end(node: &DiskNode, offset: u32, count: u16) -> u64
    ensures { result ≡ min node.now.size (offset + count) }
{
    u64::from(node.size).min(u64::from(offset) + u64::from(count))
}

/// Reads bytes of a file into the memory of a process.
fn read_file<S: Space>(
    volume: &mut Volume,
    node: &mut DiskNode,
    offset: u32,
    space: &mut S,
    at: u16,
    count: u16,
    time: u32,
) -> Moved
    requires used { node.old.mode ≢ 0 }
    requires apart { is_device node.old.mode ≡ false → IsApart (disk volume.old.state) (addresses (disk volume.old.state) (fields_of node.old)) }
    ensures ends { Ends volume.old.state (fields_of node.old) volume.new.state (fields_of node.new) (read_file (put_into at) (file_of (disk volume.old.state) (fields_of node.old)) (length (free (disk volume.old.state))) (S.image space.old) offset count time) (S.image space.new) result.done result.error }
    ensures rest { S.rest space.new ≡ S.rest space.old }
{
    set_access(node, count, time);
    if is_device(node.mode) {
        return NOTHING;
    }
    let end = read_end(node, offset, count);
    read_pieces(volume, node, offset as u64, end, space, at)
}

/// Reads bytes of a file into the kernel's own memory.
fn read_file_kernel(
    volume: &mut Volume,
    node: &mut DiskNode,
    offset: u32,
    buf: &mut [u8],
    time: u32,
) -> Moved
    requires used { node.old.mode ≢ 0 }
    requires apart { is_device node.old.mode ≡ false → IsApart (disk volume.old.state) (addresses (disk volume.old.state) (fields_of node.old)) }
    requires few { length buf.old ≤ 65535 }
    ensures ends { Ends volume.old.state (fields_of node.old) volume.new.state (fields_of node.new) (read_file put_kernel (file_of (disk volume.old.state) (fields_of node.old)) (length (free (disk volume.old.state))) buf.old offset (length buf.old) time) buf.new result.done result.error }
{
    set_access(node, buf.len() as u16, time);
    if is_device(node.mode) {
        return NOTHING;
    }
    let end = read_end(node, offset, buf.len() as u16);
    read_pieces_kernel(volume, node, offset as u64, end, buf)
}

/// Writes bytes from the memory of a process into a file.
fn write_file<S: Space>(
    volume: &mut Volume,
    node: &mut DiskNode,
    offset: u32,
    space: &S,
    at: u16,
    count: u16,
    time: u32,
) -> Moved
    requires used { node.old.mode ≢ 0 }
    requires apart { is_device node.old.mode ≡ false → IsApart (disk volume.old.state) (addresses (disk volume.old.state) (fields_of node.old)) }
    ensures { Ends volume.old.state (fields_of node.old) volume.new.state (fields_of node.new) (write_file (get_from (S.image space.now) at) (file_of (disk volume.old.state) (fields_of node.old)) (length (free (disk volume.old.state))) (tt {0}) offset count time) (tt {0}) result.done result.error }
{
    set_times(node, count, time);
    if is_device(node.mode) {
        return NOTHING;
    }
    let offset = offset as u64;
    write_pieces(volume, node, offset, offset + count as u64, space, at)
}

/// Writes bytes of the kernel's own memory into a file.
fn write_file_kernel(
    volume: &mut Volume,
    node: &mut DiskNode,
    offset: u32,
    buf: &[u8],
    time: u32,
) -> Moved
    requires used { node.old.mode ≢ 0 }
    requires apart { is_device node.old.mode ≡ false → IsApart (disk volume.old.state) (addresses (disk volume.old.state) (fields_of node.old)) }
    requires few { length buf.now ≤ 65535 }
    ensures { Ends volume.old.state (fields_of node.old) volume.new.state (fields_of node.new) (write_file (get_kernel buf.now) (file_of (disk volume.old.state) (fields_of node.old)) (length (free (disk volume.old.state))) (tt {0}) offset (length buf.now) time) (tt {0}) result.done result.error }
{
    set_times(node, buf.len() as u16, time);
    if is_device(node.mode) {
        return NOTHING;
    }
    let offset = offset as u64;
    write_pieces_kernel(volume, node, offset, offset + buf.len() as u64, buf)
}

impl DiskNodes {
    /// Reads bytes of a file, `count` from byte `offset` on, into the memory of a process, from address `at` on, and sets the
    /// time of access, where `count` is not 0. A read ends at the end of the file, and takes a block for each hole that it
    /// meets. A device has no bytes here.
    ///
    /// # Errors
    ///
    /// `ENOSPC`: no block is free for a hole. `EFAULT`: an address of the piece cannot be written, and nothing of the piece is.
    /// What was done before stays done.
    pub fn read_at<S: Space>(
        &mut self,
        ino: u16,
        offset: u32,
        space: &mut S,
        at: u16,
        count: u16,
        time: u32,
    ) -> Moved
        requires referenced { 0 < slice_index self.old.references ino }
        ensures moved { (node : Node) → node_numbered self.old.store ino ≡ Some node → Moves self.old.store ino self.new.store (read_file (put_into at) node (room_at self.old.store ino) (S.image space.old) offset count time) (S.image space.new) result.done result.error }
        ensures memory { S.rest space.new ≡ S.rest space.old }
        ensures references { self.new.references ≡ self.old.references }
        ensures rest { SameRest self.old self.new }
    {
        see(&self.volume);
        let k = place(&self.table, ino);
        let entry = &mut self.table[k];
        entry.is_changed = true;
        let moved = read_file(
            &mut self.volume,
            &mut entry.node,
            offset,
            space,
            at,
            count,
            time,
        );
        see_addresses(&entry.node.addr);
        see(&self.volume);
        moved
    }

    /// Reads bytes of a file into the kernel's own memory, as many as it has room for, of which there are 65,535 at most, and
    /// sets the time of access, where there are some. What lies behind the bytes that are done stays.
    ///
    /// # Errors
    ///
    /// `ENOSPC`: no block is free for a hole. What was done before stays done.
    pub fn read_kernel(&mut self, ino: u16, offset: u32, buf: &mut [u8], time: u32) -> Moved
        requires referenced { 0 < slice_index self.old.references ino }
        requires few { length buf.old ≤ 65535 }
        ensures moved { (node : Node) → node_numbered self.old.store ino ≡ Some node → Moves self.old.store ino self.new.store (read_file put_kernel node (room_at self.old.store ino) buf.old offset (length buf.old) time) buf.new result.done result.error }
        ensures references { self.new.references ≡ self.old.references }
        ensures rest { SameRest self.old self.new }
    {
        let mut node = inode_of(&self.volume, &self.table, ino);
        let moved = read_file_kernel(&mut self.volume, &mut node, offset, buf, time);
        carry_inode(&self.volume, &mut self.table, ino, &node);
        moved
    }

    /// Writes bytes from the memory of a process, `count` from address `at` on, into a file, from byte `offset` on, and sets
    /// both times, where `count` is not 0. The file grows where it must. A device has no bytes here.
    ///
    /// # Errors
    ///
    /// `EFBIG`: the piece would end behind byte 16,777,215, or in a directory behind byte 65,520 and its present size.
    /// `ENOSPC`: no block is free. `EFAULT`: an address of the piece cannot be read, and nothing of the piece is written. What
    /// was done before stays done.
    pub fn write_at<S: Space>(
        &mut self,
        ino: u16,
        offset: u32,
        space: &S,
        at: u16,
        count: u16,
        time: u32,
    ) -> Moved
        requires referenced { 0 < slice_index self.old.references ino }
        ensures moved { (node : Node) → node_numbered self.old.store ino ≡ Some node → Moves self.old.store ino self.new.store (write_file (get_from (S.image space.now) at) node (room_at self.old.store ino) (tt {0}) offset count time) (tt {0}) result.done result.error }
        ensures references { self.new.references ≡ self.old.references }
        ensures rest { SameRest self.old self.new }
    {
        see(&self.volume);
        let k = place(&self.table, ino);
        let entry = &mut self.table[k];
        entry.is_changed = true;
        let moved = write_file(
            &mut self.volume,
            &mut entry.node,
            offset,
            space,
            at,
            count,
            time,
        );
        see_addresses(&entry.node.addr);
        see(&self.volume);
        moved
    }

    /// Writes bytes of the kernel's own memory, of which there are 65,535 at most, into a file, and sets both times, where
    /// there are some.
    ///
    /// # Errors
    ///
    /// `EFBIG` and `ENOSPC` as in [`DiskNodes::write_at`].
    pub fn write_kernel(&mut self, ino: u16, offset: u32, buf: &[u8], time: u32) -> Moved
        requires referenced { 0 < slice_index self.old.references ino }
        requires few { length buf.now ≤ 65535 }
        ensures moved { (node : Node) → node_numbered self.old.store ino ≡ Some node → Moves self.old.store ino self.new.store (write_file (get_kernel buf.now) node (room_at self.old.store ino) (tt {0}) offset (length buf.now) time) (tt {0}) result.done result.error }
        ensures references { self.new.references ≡ self.old.references }
        ensures rest { SameRest self.old self.new }
    {
        let mut node = inode_of(&self.volume, &self.table, ino);
        let moved = write_file_kernel(&mut self.volume, &mut node, offset, buf, time);
        carry_inode(&self.volume, &mut self.table, ino, &node);
        moved
    }
}
