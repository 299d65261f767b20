//! Looks at what calls leave.
ghost use Rattle.std.specs.Prelude.{◌≡◌};
ghost use Rattle.fs_nodes.specs.Keys.{counts};

use crate::file_system::fixtures::put;
use crate::system_calls::disk::{BLOCKS, BYTES};
use crate::system_calls::world::World;
use fs_check::{Tally, accept, tally};
use fs_codec::DiskNode;
use fs_nodes::Nodes;
use lines_eight::Lines;
use open_files::OpenFile;
use v6_base::{Chan, Entry, LINES, Space, Tape, Whole};

/// What is looked at, and what must be there.
#[derive(Clone, Copy)]
pub enum Look {
    /// An inode's mode, its links with its owner and group, and its size.
    Inode(u16, u16, [u8; 3], u32),
    /// The inode is free.
    Gone(u16),
    /// Its times of access and of modification.
    Times(u16, u32, u32),
    /// One of its addresses, by its place.
    Address(u16, usize, u16),
    /// Bytes of its file from an offset on, of which there are 16 at most.
    Body(u16, u32, &'static [u8]),
    /// How often it is referred to.
    Refs(u16, u16),
    /// The file of a number: its inode, its offset, and its count of numbers.
    File(usize, u16, u32, u16),
    /// Whether it can be read and written.
    Kind(usize, bool, bool),
    /// It is an end of a pipe, which can be read or else written.
    End(usize, bool),
    /// One more than the entry of a number, or 0.
    Number(usize, u8),
    /// The current directory.
    Directory(u16),
    /// The terminal of the process.
    Terminal(u8),
    /// The call that waits, and its words.
    Pending(u8, [u16; 8]),
    /// The console's speeds, characters and flags.
    Modes([u16; 3]),
    /// The console is open.
    IsOpen(bool),
    /// Bytes of the memory from an address on.
    Memory(u16, &'static [u8]),
    /// What was shown since the last such look, and how often those who wait for keys were woken.
    Shown(&'static [u8], usize),
    /// The lines of the log since the last look at what was shown or logged.
    Logged(&'static [Entry]),
    /// What went out since the last such look on this line, and on no other; and the lines of the log.
    WentOut(u8, &'static [u8], &'static [Entry]),
    /// The signal that the process has, or 0.
    Posted(u8),
    /// How many inodes are used and how many blocks free; and the disk has no fault.
    Counts(u16, u16),
    /// Bytes of the disk.
    Disk(usize, &'static [u8]),
}

/// The inode of a number: one that no disk has where it is free.
fn inode(nodes: &mut Nodes, ino: u16) -> DiskNode
    ensures references { nodes.new.references ≡ nodes.old.references }
    ensures counts { counts nodes.new.store ≡ counts nodes.old.store }
{
    match nodes.peek(ino) {
        Some(inode) => inode,
        None => DiskNode {
            mode: 0,
            nlink: 255,
            uid: 255,
            gid: 255,
            size: 0,
            addr: [0xffff; 8],
            actime: 0,
            modtime: 0,
        },
    }
}

fn is_inode(inode: &DiskNode, mode: u16, owners: [u8; 3], size: u32) -> bool {
    let DiskNode {
        nlink,
        uid,
        gid,
        ..
    } = *inode;
    inode.mode == mode && [nlink, uid, gid] == owners && inode.size == size
}

fn has_address(inode: &DiskNode, place: usize, address: u16) -> bool {
    inode.addr.get(place) == Some(&address)
}

fn has_body(nodes: &mut Nodes, ino: u16, offset: u32, bytes: &[u8]) -> bool
    ensures references { nodes.new.references ≡ nodes.old.references }
    ensures counts { counts nodes.new.store ≡ counts nodes.old.store }
{
    let mut found = [0; 16];
    if nodes.peek(ino).is_none() {
        return false;
    }
    nodes.look(ino, offset, &mut found);
    found.starts_with(bytes)
}

/// The open file of a number, if it is open.
fn file(w: &World, fd: usize) -> Option<OpenFile> {
    match w.u.files.get(fd) {
        Some(number) if *number > 0 && w.files.table.in_use(*number - 1) => {
            Some(*w.files.table.file(*number - 1))
        }
        _ => None,
    }
}

fn is_file(w: &World, fd: usize, ino: u16, offset: u32, count: u16) -> bool {
    match file(w, fd) {
        Some(file) => (file.ino, file.offset, file.count) == (ino, offset, count),
        None => false,
    }
}

fn is_of_kind(w: &World, fd: usize, reading: bool, writing: bool, pipe: bool) -> bool {
    match file(w, fd) {
        Some(file) => {
            (file.kind.reading, file.kind.writing, file.kind.pipe) == (reading, writing, pipe)
        }
        None => false,
    }
}

fn has_bytes(space: &Whole, at: u16, bytes: &[u8]) -> bool {
    for (k, byte) in bytes.iter().enumerate() {
        if space.load_byte(at.wrapping_add((k % 65536) as u16)) != Ok(*byte) {
            return false;
        }
    }
    true
}

fn has_shown(tape: &mut Tape, bytes: &[u8], wakes: usize) -> bool {
    let right = tape.bytes() == bytes
        && tape.entries().len() == wakes
        && tape
            .entries()
            .iter()
            .all(|entry| *entry == Entry::Wake(Chan::Keys));
    tape.clear();
    right
}

/// These bytes went out on one line, and none on another.
fn has_sent(tape: &mut Tape, line: u8, bytes: &[u8], entries: &[Entry]) -> bool {
    let mut right = tape.entries() == entries;
    for l in 0..LINES {
        let found = tape.bytes_on(l);
        right = right
            && if l == line {
                found == bytes
            } else {
                found.is_empty()
            };
    }
    tape.clear();
    right
}

/// The modes of the console.
fn modes(lines: &Lines) -> [u16; 3] {
    if lines.count() > 0 {
        lines.modes(0)
    } else {
        [u16::MAX; 3]
    }
}

fn is_open(lines: &Lines) -> bool {
    lines.count() > 0 && lines.is_open(0)
}

fn has_logged(tape: &mut Tape, entries: &[Entry]) -> bool {
    let right = tape.entries() == entries;
    tape.clear();
    right
}

/// The bytes of the disk as it is now.
fn disk(nodes: &Nodes) -> [u8; BYTES] {
    let mut bytes = [0; BYTES];
    for n in 0..BLOCKS {
        put(
            &mut bytes,
            &[(512 * usize::from(n), nodes.on_disk(0, n).as_slice())],
        );
    }
    bytes
}

fn counts(nodes: &mut Nodes, used: u16, free: u16, now: u32) -> bool
    ensures references { nodes.new.references ≡ nodes.old.references }
    ensures counts { counts nodes.new.store ≡ counts nodes.old.store }
{
    nodes.update_all(now);
    let bytes = disk(nodes);
    accept(&bytes).is_ok() && tally(&bytes) == Tally { nodes: used, free }
}

fn stands(nodes: &Nodes, at: usize, bytes: &[u8]) -> bool {
    match disk(nodes).get(at..) {
        Some(rest) => rest.starts_with(bytes),
        None => false,
    }
}

fn shows_inode(nodes: &mut Nodes, look: Look) -> bool
    ensures references { nodes.new.references ≡ nodes.old.references }
    ensures counts { counts nodes.new.store ≡ counts nodes.old.store }
{
    match look {
        Look::Inode(ino, mode, owners, size) => is_inode(&inode(nodes, ino), mode, owners, size),
        Look::Gone(ino) => nodes.peek(ino).is_none(),
        Look::Times(ino, actime, modtime) => {
            let inode = inode(nodes, ino);
            (inode.actime, inode.modtime) == (actime, modtime)
        }
        Look::Address(ino, place, address) => has_address(&inode(nodes, ino), place, address),
        Look::Body(ino, offset, bytes) => has_body(nodes, ino, offset, bytes),
        Look::Refs(ino, count) => nodes.refs(ino) == count,
        Look::Disk(at, bytes) => stands(nodes, at, bytes),
        _ => false,
    }
}

/// Whether what must be there is there.
pub fn shows(w: &mut World, look: Look) -> bool
    ensures references { w.new.files.tree.nodes.references ≡ w.old.files.tree.nodes.references }
    ensures counts { counts w.new.files.tree.nodes.store ≡ counts w.old.files.tree.nodes.store }
    ensures mounts { w.new.files.tree.mounts ≡ w.old.files.tree.mounts }
    ensures table { w.new.files.table ≡ w.old.files.table }
    ensures pipes { w.new.files.pipes ≡ w.old.files.pipes }
    ensures process { w.new.u ≡ w.old.u }
{
    match look {
        Look::File(fd, ino, offset, count) => is_file(w, fd, ino, offset, count),
        Look::Kind(fd, reading, writing) => is_of_kind(w, fd, reading, writing, false),
        Look::End(fd, reading) => is_of_kind(w, fd, reading, !reading, true),
        Look::Number(fd, number) => w.u.files.get(fd) == Some(&number),
        Look::Directory(ino) => w.u.dir == ino,
        Look::Terminal(tty) => w.row.tty == tty,
        Look::Pending(pending, words) => w.u.pending == pending && w.u.call == words,
        Look::Modes(wanted) => modes(&w.files.lines) == wanted,
        Look::IsOpen(is) => is_open(&w.files.lines) == is,
        Look::Memory(at, bytes) => has_bytes(&w.space, at, bytes),
        Look::Shown(bytes, wakes) => has_shown(&mut w.tape, bytes, wakes),
        Look::Logged(entries) => has_logged(&mut w.tape, entries),
        Look::WentOut(line, bytes, entries) => has_sent(&mut w.tape, line, bytes, entries),
        Look::Posted(sig) => w.row.sig == sig,
        Look::Counts(used, free) => counts(&mut w.files.tree.nodes, used, free, w.now),
        _ => shows_inode(&mut w.files.tree.nodes, look),
    }
}
