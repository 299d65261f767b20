//! The inodes that somebody refers to, of one disk or of two.
ghost use Rattle.std.specs.Prelude.{bit_and, ◌≡◌, ◌≢◌, ◌+◌, ◌-◌, ◌*◌, ◌<◌, ◌≤◌, ◌⊎◌, ◌==◌, ℕ, if◌then◌else◌, nat_lt, true, false, length, slice_set, slice_index, replicate, None, Some, IsSome, IsSomeAnd, MatchResult, MatchOption, IfOk};
ghost use Rattle.v6_base.specs.declared.errno.Errno.{Errno};
ghost use Rattle.buf_cache.specs.Blocks.{block_at, WritesLate};
ghost use Rattle.fs_codec.specs.Store.{Node};
ghost use Rattle.fs_codec.specs.Faults.{disk_fault};
ghost use Rattle.fs_codec.specs.declared.layout.TheConstants.{DISK_BLOCKS};
ghost use Rattle.fs_codec.specs.Modes.{file_type, is_large, is_device};
ghost use Rattle.fs_codec.specs.declared.modes.TheConstants.{IALLOC};
ghost use Rattle.fs_laws.specs.Pieces.{read_file, write_file};
ghost use Rattle.fs_blocks.specs.State.{disk};
ghost use Rattle.fs_blocks.specs.Store.{store_now};
ghost use Rattle.fs_nodes.specs.Copy.{put_into, put_kernel, get_from, get_kernel};
ghost use Rattle.fs_nodes.specs.Disks.{OfSecond};
ghost use Rattle.fs_nodes.specs.Keys.{node_numbered, without_reference, with_fields, with_truncated, room_at, synced};
ghost use Rattle.fs_nodes.specs.FileSystem.{FileSystem, referenced, held_on_second, held_by, IsFileSystem, file_byte, SameFiles, ShowsNode, SameRest, WritesLateEach, AllStand, together};
ghost use Rattle.fs_nodes.specs.Moves.{Moves};
ghost use Rattle.fs_nodes.specs.Numbers.{MakesNode, MakesNone, MakesNoneOn, known_after};
ghost use Rattle.fs_nodes.specs.one_disk.FileSystem as one;
ghost use Rattle.fs_nodes.specs.one_disk.Numbers as one_numbers;

use crate::one_disk::nodes::DiskNodes;
use crate::one_disk::pieces::Moved;
use fs_blocks::Volume;
use fs_codec::DiskNode;
use std::marker::Model;
use v6_base::{Errno, Space};

/// How many inodes of all disks can be referred to: `NINODE` of Lions' Commentary, `param.h`.
const MOST_INODES: usize = 100;

/// The file systems of the root's disk and of a second one, where there is one, with the inodes that somebody refers to.
/// An inode of the second disk is known by its number after all numbers of the first.
#[derive(Drop)]
pub struct Nodes {
    root: DiskNodes,
    second: Option<DiskNodes>,
    /// How many inodes the root's disk has, where there is a second one.
    first: u16,
}

impl Model for Nodes {
    ghost use Rattle.fs_nodes.specs.FileSystem.{FileSystem, together, AreDisks};

    ghost Value = { FileSystem };

    ghost view = { λ n. together (record { root = n.root; second = n.second }) };

    ghost invariant = { λ n. AreDisks n.root n.second n.first };
}

/// How many inodes of the second disk are referred to.
fn held_on(second: &Option<DiskNodes>) -> usize
    ensures { result ≡ held_on_second second.now }
{
    match second {
        Some(nodes) => nodes.held(),
        None => 0,
    }
}

/// Sees what is so of the file systems of both disks, and costs nothing.
fn see(root: &DiskNodes, second: &Option<DiskNodes>)
    ensures root { one.IsFileSystem root.now }
    ensures second { OfSecond one.IsFileSystem second.now }
{
    root.see();
    if let Some(nodes) = second {
        nodes.see();
    }
}

/// Makes a new inode on a disk, where there is room for one more that is referred to. Where there is none its number is drawn
/// all the same.
fn make_on(
    nodes: &mut DiskNodes,
    has_room: bool,
    mode: u16,
    uid: u8,
    gid: u8,
    time: u32,
) -> Result<u16, Errno>
    requires room { has_room ≡ true → referenced nodes.old.references < 100 }
    ensures outcome { MatchResult result
        (λ i. (has_room ≡ true) × one_numbers.MakesNode nodes.old mode uid gid time i nodes.new)
        (λ e. MakesNoneOn nodes.old has_room e nodes.new) }
    ensures stored { WritesLate nodes.old.stored nodes.old.blocks nodes.new.stored }
    ensures rest { one.SameRest nodes.old nodes.new }
{
    if has_room {
        return nodes.new_node(mode, uid, gid, time);
    }
    match nodes.draw() {
        Some(_) => Err(Errno::ENFILE),
        None => Err(Errno::ENOSPC),
    }
}

/// The key of an inode that was made on the second disk.
fn known_after(first: u16, made: Result<u16, Errno>) -> Result<u16, Errno>
    requires { IfOk made (λ i. first + i ≤ 65535) }
    ensures { result ≡ known_after first made }
{
    match made {
        Ok(ino) => Ok(first + ino),
        Err(e) => Err(e),
    }
}

impl Nodes {
    /// Sees what is so of all file systems, and costs nothing.
    pub fn see(&self)
        ensures { IsFileSystem self.now }
    {
        see(&self.root, &self.second);
    }

    /// How many inodes the root's disk has.
    pub fn root_count(&self) -> u32
        ensures { result ≡ self.now.store.root.count }
    {
        self.root.count()
    }

    /// How often the inode of a key is referred to: 0 where there is none of this key.
    pub fn refs(&self, ino: u16) -> u16
        ensures { result ≡ slice_index self.now.references ino }
    {
        see(&self.root, &self.second);
        match &self.second {
            Some(second) if ino > self.first => second.refs(ino - self.first),
            _ => self.root.refs(ino),
        }
    }

    /// Whether an inode can be referred to once more: it is referred to already, or fewer than a hundred are.
    fn can_refer(&self, ino: u16) -> bool
        ensures can { result ≡ true → (0 < slice_index self.now.references ino) ⊎ (referenced self.now.references < 100) }
        ensures not { result ≡ false → (slice_index self.now.references ino ≡ 0) × (referenced self.now.references ≡ 100) }
        ensures most { referenced self.now.references ≤ 100 }
    {
        see(&self.root, &self.second);
        self.root.held() + held_on(&self.second) < MOST_INODES || self.refs(ino) > 0
    }

    /// Refers to an inode that is used, once more.
    ///
    /// # Errors
    ///
    /// `ENFILE`: a hundred inodes are referred to, and this is none of them.
    pub fn take(&mut self, ino: u16) -> Result<(), Errno>
        requires node { IsSome (node_numbered self.old.store ino) }
        requires few { slice_index self.old.references ino < 65535 }
        ensures outcome { MatchResult result
            (λ u. ((0 < slice_index self.old.references ino) ⊎ (referenced self.old.references < 100))
            × SameFiles (record self.old {
              references = slice_set self.old.references ino (slice_index self.old.references ino + 1);
            }) self.new)
            (λ e. (e ≡ Errno.ENFILE) × (slice_index self.old.references ino ≡ 0)
            × (referenced self.old.references ≡ 100) × (self.new ≡ self.old)) }
        ensures stored { WritesLateEach self.old.stored self.old.blocks self.new.stored }
    {
        see(&self.root, &self.second);
        if !self.can_refer(ino) {
            return Err(Errno::ENFILE);
        }
        match &mut self.second {
            Some(second) if ino > self.first => second.take(ino - self.first),
            _ => self.root.take(ino),
        }
    }

    /// Gives a reference to an inode back. Where it was the last one, and no directory entry names the inode, the inode is
    /// freed with all its blocks; inode 1 of a disk never is. `iput` in Lions' Commentary, `iget.c`. The time is the present
    /// one.
    pub fn put(&mut self, ino: u16, time: u32)
        requires referenced { 0 < slice_index self.old.references ino }
        ensures references { self.new.references
            ≡ slice_set self.old.references ino (slice_index self.old.references ino - 1) }
        ensures store { (node : Node) → node_numbered self.old.store ino ≡ Some node → self.new.store
            ≡ (if slice_index self.old.references ino == 1
            then without_reference self.old.store ino node else self.old.store) }
        ensures stored { (node : Node) → node_numbered self.old.store ino ≡ Some node → 0 < node.nlink
            → WritesLateEach self.old.stored self.old.blocks self.new.stored }
        ensures rest { SameRest self.old self.new }
    {
        see(&self.root, &self.second);
        match &mut self.second {
            Some(second) if ino > self.first => second.put(ino - self.first, time),
            _ => self.root.put(ino, time),
        }
    }

    /// An inode that is referred to.
    pub fn node(&self, ino: u16) -> &DiskNode
        requires referenced { 0 < slice_index self.now.references ino }
        ensures shown { ShowsNode (node_numbered self.now.store ino) result.now }
    {
        see(&self.root, &self.second);
        match &self.second {
            Some(second) if ino > self.first => second.node(ino - self.first),
            _ => self.root.node(ino),
        }
    }

    /// The inode of a key, to which nothing need refer: `None` where there is none of this key, or it is free.
    pub fn peek(&mut self, ino: u16) -> Option<DiskNode>
        ensures found { MatchOption result (node_numbered self.old.store ino ≡ None)
            (λ inode. ShowsNode (node_numbered self.old.store ino) inode) }
        ensures same { SameFiles self.old self.new }
        ensures stored { WritesLateEach self.old.stored self.old.blocks self.new.stored }
    {
        see(&self.root, &self.second);
        match &mut self.second {
            Some(second) if ino > self.first => second.peek(ino - self.first),
            _ => self.root.peek(ino),
        }
    }

    /// Whether an inode of a disk is referred to.
    pub fn holds(&self, dev: u8) -> bool
        ensures { result ≡ nat_lt 0 (held_by self.now dev) }
    {
        see(&self.root, &self.second);
        if dev == 0 {
            self.root.held() > 0
        } else {
            held_on(&self.second) > 0
        }
    }

    /// The file system of a disk without a fault, to whose inodes nobody refers yet.
    pub fn new(v: Volume) -> Nodes
        requires sound { disk_fault DISK_BLOCKS (disk v.state) ≡ None }
        ensures store { result.store ≡ record { root = store_now v.state; second = None } }
        ensures none { result.references ≡ replicate (result.store.root.count + 1) 0 }
        ensures blocks { result.blocks ≡ record { root = v.state.blocks; second = None } }
        ensures stored { result.stored ≡ record { root = v.stored; second = None } }
    {
        let root = DiskNodes::new(v);
        root.see();
        Nodes {
            root,
            second: None,
            first: 0,
        }
    }

    /// The bytes of block `n` on a disk.
    pub fn on_disk(&self, dev: u8, n: u16) -> &[u8; 512]
        requires block { n < DISK_BLOCKS }
        requires there { dev ≢ 0 → IsSome self.now.store.second }
        ensures root { dev ≡ 0 → result.now ≡ block_at self.now.stored.root n }
        ensures second { dev ≢ 0 → IsSomeAnd self.now.stored.second (λ stored. result.now ≡ block_at stored n) }
    {
        match &self.second {
            Some(second) if dev != 0 => second.on_disk(n),
            _ => self.root.on_disk(n),
        }
    }

    /// Sets the number of links.
    pub fn set_links(&mut self, ino: u16, nlink: u8, time: u32)
        requires referenced { 0 < slice_index self.old.references ino }
        ensures store { (node : Node) → node_numbered self.old.store ino ≡ Some node
            → self.new.store ≡ with_fields self.old.store ino (record node { nlink = nlink; modtime = time }) }
        ensures references { self.new.references ≡ self.old.references }
        ensures blocks { self.new.blocks ≡ self.old.blocks }
        ensures stored { self.new.stored ≡ self.old.stored }
        ensures rest { SameRest self.old self.new }
    {
        see(&self.root, &self.second);
        match &mut self.second {
            Some(second) if ino > self.first => second.set_links(ino - self.first, nlink, time),
            _ => self.root.set_links(ino, nlink, time),
        }
    }

    /// Reads bytes of a file, `count` from byte `offset` on, into the memory of a process, from address `at` on, and sets the
    /// time of access, where `count` is not 0. A read ends at the end of the file, and takes a block for each hole that it
    /// meets. A device has no bytes here.
    ///
    /// # Errors
    ///
    /// `ENOSPC`: no block is free for a hole. `EFAULT`: an address of the piece cannot be written, and nothing of the piece is.
    /// What was done before stays done.
    pub fn read_at<S: Space>(
        &mut self,
        ino: u16,
        offset: u32,
        space: &mut S,
        at: u16,
        count: u16,
        time: u32,
    ) -> Moved
        requires referenced { 0 < slice_index self.old.references ino }
        ensures moved { (node : Node) → node_numbered self.old.store ino ≡ Some node
            → Moves self.old.store ino self.new.store
            (read_file (put_into at) node (room_at self.old.store ino) (S.image space.old) offset count time)
            (S.image space.new) result.done result.error }
        ensures memory { S.rest space.new ≡ S.rest space.old }
        ensures references { self.new.references ≡ self.old.references }
        ensures rest { SameRest self.old self.new }
    {
        see(&self.root, &self.second);
        match &mut self.second {
            Some(second) if ino > self.first => {
                second.read_at(ino - self.first, offset, space, at, count, time)
            }
            _ => self.root.read_at(ino, offset, space, at, count, time),
        }
    }

    /// Sets the mode of an inode, of which the type and the flag of large files stay as they are.
    pub fn set_mode(&mut self, ino: u16, mode: u16, time: u32)
        requires referenced { 0 < slice_index self.old.references ino }
        requires used { bit_and mode IALLOC ≢ 0 }
        requires kind { (node : Node) → node_numbered self.old.store ino ≡ Some node
            → (file_type mode ≡ file_type node.mode) × (is_large mode ≡ is_large node.mode) }
        ensures store { (node : Node) → node_numbered self.old.store ino ≡ Some node
            → self.new.store ≡ with_fields self.old.store ino (record node { mode = mode; modtime = time }) }
        ensures references { self.new.references ≡ self.old.references }
        ensures blocks { self.new.blocks ≡ self.old.blocks }
        ensures stored { self.new.stored ≡ self.old.stored }
        ensures rest { SameRest self.old self.new }
    {
        see(&self.root, &self.second);
        match &mut self.second {
            Some(second) if ino > self.first => second.set_mode(ino - self.first, mode, time),
            _ => self.root.set_mode(ino, mode, time),
        }
    }

    /// Sets the owner and the group.
    pub fn set_owner(&mut self, ino: u16, uid: u8, gid: u8, time: u32)
        requires referenced { 0 < slice_index self.old.references ino }
        ensures store { (node : Node) → node_numbered self.old.store ino ≡ Some node
            → self.new.store ≡ with_fields self.old.store ino (record node { uid = uid; gid = gid; modtime = time }) }
        ensures references { self.new.references ≡ self.old.references }
        ensures blocks { self.new.blocks ≡ self.old.blocks }
        ensures stored { self.new.stored ≡ self.old.stored }
        ensures rest { SameRest self.old self.new }
    {
        see(&self.root, &self.second);
        match &mut self.second {
            Some(second) if ino > self.first => second.set_owner(ino - self.first, uid, gid, time),
            _ => self.root.set_owner(ino, uid, gid, time),
        }
    }

    /// Sets the device of a device's inode, and no time.
    pub fn set_device(&mut self, ino: u16, device: u16)
        requires referenced { 0 < slice_index self.old.references ino }
        requires device { (node : Node) → node_numbered self.old.store ino ≡ Some node → is_device node.mode ≡ true }
        ensures store { (node : Node) → node_numbered self.old.store ino ≡ Some node
            → self.new.store ≡ with_fields self.old.store ino (record node { device = device }) }
        ensures references { self.new.references ≡ self.old.references }
        ensures blocks { self.new.blocks ≡ self.old.blocks }
        ensures stored { self.new.stored ≡ self.old.stored }
        ensures rest { SameRest self.old self.new }
    {
        see(&self.root, &self.second);
        match &mut self.second {
            Some(second) if ino > self.first => second.set_device(ino - self.first, device),
            _ => self.root.set_device(ino, device),
        }
    }

    /// Makes the size of a pipe's file 0, and leaves its blocks and its times.
    pub fn empty_pipe(&mut self, ino: u16)
        requires referenced { 0 < slice_index self.old.references ino }
        ensures store { (node : Node) → node_numbered self.old.store ino ≡ Some node
            → self.new.store ≡ with_fields self.old.store ino (record node { size = 0 }) }
        ensures references { self.new.references ≡ self.old.references }
        ensures blocks { self.new.blocks ≡ self.old.blocks }
        ensures stored { self.new.stored ≡ self.old.stored }
        ensures rest { SameRest self.old self.new }
    {
        see(&self.root, &self.second);
        match &mut self.second {
            Some(second) if ino > self.first => second.empty_pipe(ino - self.first),
            _ => self.root.empty_pipe(ino),
        }
    }

    /// Gives all blocks of a file back, at a time. A device stays as it is. `itrunc` in Lions' Commentary, `iget.c`.
    pub fn truncate(&mut self, ino: u16, time: u32)
        requires referenced { 0 < slice_index self.old.references ino }
        ensures store { (node : Node) → node_numbered self.old.store ino ≡ Some node
            → self.new.store ≡ with_truncated self.old.store ino node time }
        ensures references { self.new.references ≡ self.old.references }
        ensures rest { SameRest self.old self.new }
    {
        see(&self.root, &self.second);
        match &mut self.second {
            Some(second) if ino > self.first => second.truncate(ino - self.first, time),
            _ => self.root.truncate(ino, time),
        }
    }

    /// Writes bytes from the memory of a process, `count` from address `at` on, into a file, from byte `offset` on, and sets
    /// both times, where `count` is not 0. The file grows where it must. A device has no bytes here.
    ///
    /// # Errors
    ///
    /// `EFBIG`: the piece would end behind byte 16,777,215, or in a directory behind byte 65,520 and its present size.
    /// `ENOSPC`: no block is free. `EFAULT`: an address of the piece cannot be read, and nothing of the piece is written. What
    /// was done before stays done.
    pub fn write_at<S: Space>(
        &mut self,
        ino: u16,
        offset: u32,
        space: &S,
        at: u16,
        count: u16,
        time: u32,
    ) -> Moved
        requires referenced { 0 < slice_index self.old.references ino }
        ensures moved { (node : Node) → node_numbered self.old.store ino ≡ Some node
            → Moves self.old.store ino self.new.store
            (write_file (get_from (S.image space.now) at) node (room_at self.old.store ino) (tt {0}) offset count time)
            (tt {0}) result.done result.error }
        ensures references { self.new.references ≡ self.old.references }
        ensures rest { SameRest self.old self.new }
    {
        see(&self.root, &self.second);
        match &mut self.second {
            Some(second) if ino > self.first => {
                second.write_at(ino - self.first, offset, space, at, count, time)
            }
            _ => self.root.write_at(ino, offset, space, at, count, time),
        }
    }

    /// Reads bytes of a file into the kernel's own memory, as many as it has room for, of which there are 65,535 at most, and
    /// sets the time of access, where there are some. What lies behind the bytes that are done stays.
    ///
    /// # Errors
    ///
    /// `ENOSPC`: no block is free for a hole. What was done before stays done.
    pub fn read_kernel(&mut self, ino: u16, offset: u32, buf: &mut [u8], time: u32) -> Moved
        requires referenced { 0 < slice_index self.old.references ino }
        requires few { length buf.old ≤ 65535 }
        ensures moved { (node : Node) → node_numbered self.old.store ino ≡ Some node
            → Moves self.old.store ino self.new.store
            (read_file put_kernel node (room_at self.old.store ino) buf.old offset (length buf.old) time)
            buf.new result.done result.error }
        ensures references { self.new.references ≡ self.old.references }
        ensures rest { SameRest self.old self.new }
    {
        see(&self.root, &self.second);
        match &mut self.second {
            Some(second) if ino > self.first => second.read_kernel(
                ino - self.first,
                offset,
                buf,
                time,
            ),
            _ => self.root.read_kernel(ino, offset, buf, time),
        }
    }

    /// Writes bytes of the kernel's own memory, of which there are 65,535 at most, into a file, and sets both times, where
    /// there are some.
    ///
    /// # Errors
    ///
    /// `EFBIG` and `ENOSPC` as in [`Nodes::write_at`].
    pub fn write_kernel(&mut self, ino: u16, offset: u32, buf: &[u8], time: u32) -> Moved
        requires referenced { 0 < slice_index self.old.references ino }
        requires few { length buf.now ≤ 65535 }
        ensures moved { (node : Node) → node_numbered self.old.store ino ≡ Some node
            → Moves self.old.store ino self.new.store
            (write_file (get_kernel buf.now) node (room_at self.old.store ino) (tt {0}) offset (length buf.now) time)
            (tt {0}) result.done result.error }
        ensures references { self.new.references ≡ self.old.references }
        ensures rest { SameRest self.old self.new }
    {
        see(&self.root, &self.second);
        match &mut self.second {
            Some(second) if ino > self.first => second.write_kernel(
                ino - self.first,
                offset,
                buf,
                time,
            ),
            _ => self.root.write_kernel(ino, offset, buf, time),
        }
    }

    /// The file systems of two disks without a fault, to whose inodes nobody refers yet. The keys of their inodes are words.
    pub fn new2(v: Volume, w: Volume) -> Nodes
        requires sound { disk_fault DISK_BLOCKS (disk v.state) ≡ None }
        requires second { disk_fault DISK_BLOCKS (disk w.state) ≡ None }
        requires few { (store_now v.state).count + (store_now w.state).count ≤ 65535 }
        ensures store { result.store ≡ record { root = store_now v.state; second = Some (store_now w.state) } }
        ensures none { (key : ℕ) → slice_index result.references key ≡ 0 }
        ensures blocks { result.blocks ≡ record { root = v.state.blocks; second = Some w.state.blocks } }
        ensures stored { result.stored ≡ record { root = v.stored; second = Some w.stored } }
    {
        let root = DiskNodes::new(v);
        let second = DiskNodes::new(w);
        root.see();
        second.see();
        let first = root.count() as u16;
        Nodes {
            root,
            second: Some(second),
            first,
        }
    }

    /// Writes to the disks what has changed: inodes, blocks, and each super-block that has changed, with a time. The blocks on
    /// each disk stand for its file system then. `update` in Lions' Commentary, `alloc.c`.
    pub fn update_all(&mut self, time: u32)
        ensures store { self.new.store ≡ synced self.old.store time }
        ensures references { self.new.references ≡ self.old.references }
        ensures stored { self.new.stored ≡ self.new.blocks }
        ensures stands { AllStand self.new.stored self.new.store }
        ensures rest { SameRest self.old self.new }
    {
        self.root.update_all(time);
        if let Some(second) = &mut self.second {
            second.update_all(time);
        }
    }

    /// Makes a new inode on a disk, to which the caller refers, with no link, no bytes and both times set: `ialloc` in Lions'
    /// Commentary, `alloc.c`. Its number is drawn from the list of that disk's super-block, and IALLOC is added to its mode.
    ///
    /// # Errors
    ///
    /// `ENOSPC`: no inode is free there. `ENFILE`: one is, but a hundred inodes are referred to. Its number stays out of the
    /// list.
    pub fn new_node(
        &mut self,
        dev: u8,
        mode: u16,
        uid: u8,
        gid: u8,
        time: u32,
    ) -> Result<u16, Errno>
        requires device { dev < 2 }
        requires there { dev ≢ 0 → IsSome self.old.store.second }
        ensures outcome { MatchResult result (λ i. MakesNode self.old dev mode uid gid time i self.new)
            (λ e. MakesNone self.old dev e self.new) }
        ensures stored { WritesLateEach self.old.stored self.old.blocks self.new.stored }
        ensures rest { SameRest self.old self.new }
    {
        see(&self.root, &self.second);
        let has_room = self.root.held() + held_on(&self.second) < MOST_INODES;
        let first = self.first;
        match &mut self.second {
            Some(second) if dev != 0 => {
                let made = make_on(second, has_room, mode, uid, gid, time);
                known_after(first, made)
            }
            _ => make_on(&mut self.root, has_room, mode, uid, gid, time),
        }
    }

    /// The 16 bytes of a file from an offset on, with zeros for blocks that it does not have and behind its size. A directory
    /// entry is so long. Nothing need refer to the inode.
    pub fn look(&mut self, ino: u16, offset: u32, buf: &mut [u8; 16])
        requires node { IsSome (node_numbered self.old.store ino) }
        ensures bytes { (node : Node) → node_numbered self.old.store ino ≡ Some node
            → (k : ℕ) → k < 16 → slice_index buf.new k ≡ file_byte node.size node.body (offset + k) }
        ensures same { SameFiles self.old self.new }
        ensures stored { WritesLateEach self.old.stored self.old.blocks self.new.stored }
    {
        see(&self.root, &self.second);
        match &mut self.second {
            Some(second) if ino > self.first => second.look(ino - self.first, offset, buf),
            _ => self.root.look(ino, offset, buf),
        }
    }

    /// Copies block `n` of a file, with zeros for a block that it does not have. Bytes of the last block that lie behind the
    /// file's size are copied too. Nothing need refer to the inode.
    pub fn look_block(&mut self, ino: u16, n: u16, buf: &mut [u8; 512])
        requires node { IsSome (node_numbered self.old.store ino) }
        ensures bytes { (node : Node) → node_numbered self.old.store ino ≡ Some node
            → (k : ℕ) → k < 512 → slice_index buf.new k ≡ slice_index node.body (512 * n + k) }
        ensures same { SameFiles self.old self.new }
        ensures stored { WritesLateEach self.old.stored self.old.blocks self.new.stored }
    {
        see(&self.root, &self.second);
        match &mut self.second {
            Some(second) if ino > self.first => second.look_block(ino - self.first, n, buf),
            _ => self.root.look_block(ino, n, buf),
        }
    }
}
