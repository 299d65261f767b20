//! Calls of a file system, as rows name them.
use crate::file_system::opened::takes;
use fs_codec::{IALLOC, file_type, is_device, is_large};
use fs_nodes::{Moved, Nodes};
use v6_base::Errno;

/// A call, which is for an inode that is referred to, but for `New`, `Take` and `Update`.
#[derive(Clone, Copy)]
pub enum Call {
    /// A new inode: its mode, owner and group.
    New(u16, u8, u8),
    Take(u16),
    Put(u16),
    /// So many bytes, of which each is the time of the call, from a byte of a file on.
    Write(u16, u32, u16),
    /// So many bytes from a byte of a file on.
    Read(u16, u32, u16),
    Truncate(u16),
    Empty(u16),
    Mode(u16, u16),
    Owner(u16, u8, u8),
    Links(u16, u8),
    Device(u16, u16),
    Update,
}

/// The number or the count of bytes that a call answers, which is 0 for most calls, and its error.
pub type Told = (u16, Option<Errno>);

/// The most bytes that a row reads or writes at once.
const ROOM: usize = 8192;

const NOTHING: Told = (0, None);

/// What comes of a call that may not be made.
const NO_CALL: Told = (0, Some(Errno::EINVAL));

fn told_number(answer: Result<u16, Errno>) -> Told {
    match answer {
        Ok(ino) => (ino, None),
        Err(e) => (0, Some(e)),
    }
}

fn told_moved(moved: Moved) -> Told {
    (moved.done, moved.error)
}

fn told_taken(taken: bool) -> Told {
    if taken { NOTHING } else { NO_CALL }
}

fn put(nodes: &mut Nodes, ino: u16, time: u32) -> Told {
    if nodes.refs(ino) == 0 {
        return NO_CALL;
    }
    nodes.put(ino, time);
    NOTHING
}

/// Bytes of which each is the time.
fn filled(time: u32) -> [u8; ROOM] {
    [(time % 256) as u8; ROOM]
}

fn write(nodes: &mut Nodes, ino: u16, offset: u32, count: u16, time: u32) -> Told {
    let bytes = filled(time);
    if nodes.refs(ino) == 0 || usize::from(count) > ROOM {
        return NO_CALL;
    }
    told_moved(nodes.write_kernel(ino, offset, &bytes[..usize::from(count)], time))
}

fn read(nodes: &mut Nodes, ino: u16, offset: u32, count: u16, time: u32) -> Told {
    let mut bytes = [0; ROOM];
    if nodes.refs(ino) == 0 || usize::from(count) > ROOM {
        return NO_CALL;
    }
    told_moved(nodes.read_kernel(ino, offset, &mut bytes[..usize::from(count)], time))
}

/// Calls that change the bytes of a file.
fn changes(nodes: &mut Nodes, ino: u16, call: Call, time: u32) -> Told {
    if nodes.refs(ino) == 0 {
        return NO_CALL;
    }
    match call {
        Call::Truncate(_) => nodes.truncate(ino, time),
        Call::Empty(_) => nodes.empty_pipe(ino),
        _ => return NO_CALL,
    }
    NOTHING
}

/// A mode of the type that the inode has.
fn set_mode(nodes: &mut Nodes, ino: u16, mode: u16, time: u32) -> Told {
    if nodes.refs(ino) == 0 {
        return NO_CALL;
    }
    let old = nodes.node(ino).mode;
    if mode & IALLOC == 0 || file_type(mode) != file_type(old) || is_large(mode) != is_large(old) {
        return NO_CALL;
    }
    nodes.set_mode(ino, mode, time);
    NOTHING
}

fn set_device(nodes: &mut Nodes, ino: u16, device: u16) -> Told {
    if nodes.refs(ino) == 0 || !is_device(nodes.node(ino).mode) {
        return NO_CALL;
    }
    nodes.set_device(ino, device);
    NOTHING
}

/// Calls that set the owner or the number of links.
fn sets(nodes: &mut Nodes, ino: u16, call: Call, time: u32) -> Told {
    if nodes.refs(ino) == 0 {
        return NO_CALL;
    }
    match call {
        Call::Owner(_, uid, gid) => nodes.set_owner(ino, uid, gid, time),
        Call::Links(_, nlink) => nodes.set_links(ino, nlink, time),
        _ => return NO_CALL,
    }
    NOTHING
}

/// What a call answers at a time.
pub fn answer(nodes: &mut Nodes, call: Call, time: u32) -> Told {
    match call {
        Call::New(mode, uid, gid) => told_number(nodes.new_node(0, mode, uid, gid, time)),
        Call::Take(ino) => told_taken(takes(nodes, ino)),
        Call::Put(ino) => put(nodes, ino, time),
        Call::Write(ino, offset, count) => write(nodes, ino, offset, count, time),
        Call::Read(ino, offset, count) => read(nodes, ino, offset, count, time),
        Call::Truncate(ino) | Call::Empty(ino) => changes(nodes, ino, call, time),
        Call::Mode(ino, mode) => set_mode(nodes, ino, mode, time),
        Call::Owner(ino, _, _) | Call::Links(ino, _) => sets(nodes, ino, call, time),
        Call::Device(ino, device) => set_device(nodes, ino, device),
        Call::Update => {
            nodes.update_all(time);
            NOTHING
        }
    }
}
