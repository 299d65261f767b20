//! What a pipe has beside its file.
ghost use Rattle.std.specs.Prelude.{◌≡◌, ◌<◌, nat_lt, Some};
ghost use Rattle.fs_nodes.specs.Keys.{node_numbered};
ghost use Rattle.pipe_ends.specs.Pipes.{pipe_file, ends_of};

use fs_nodes::Nodes;
use v6_base::Errno;

/// A pipe with this many bytes, or more, is full: `PIPSIZ` in Lions' Commentary, `pipe.c`.
pub const PIPSIZ: u32 = 4096;

/// A pipe: which file it has, how far that has been read, and who waits. pipe(II).
#[derive(Clone, Copy, Debug, Default, PartialEq, Eq)]
pub struct Pipe {
    /// The inode number of its file.
    pub ino: u16,
    /// Where the next read begins, in bytes: it is the offset of the end that reads.
    pub offset: u32,
    /// Somebody waits for bytes: `IREAD` in Lions' Commentary, `inode.h`.
    pub reader_waits: bool,
    /// Somebody waits for room: `IWRITE`.
    pub writer_waits: bool,
}

/// What a read or a write of a pipe comes to.
#[derive(Clone, Copy, Debug, PartialEq, Eq)]
pub enum Piped {
    /// It has ended, with this count.
    Done(u16),
    /// The process sleeps. When it wakes it goes on with this many bytes.
    Wait { left: u16 },
    /// Bytes are left to write, and nobody can read them: the process gets a signal, and `EPIPE`.
    Broken,
    /// It has ended with an error.
    Error(Errno),
}

/// Whether a pipe has lost one of its two ends.
pub(crate) fn is_broken(n: &Nodes, p: &Pipe) -> bool
    ensures { result ≡ nat_lt (ends_of n.now.references p.now) 2 }
{
    n.refs(p.ino) < 2
}

/// How many bytes a pipe's file has.
pub(crate) fn size_of(n: &Nodes, p: &Pipe) -> u32
    requires { 0 < ends_of n.now.references p.now }
    ensures size { result ≡ (pipe_file n.now.store p.now).size }
    ensures there { node_numbered n.now.store p.now.ino ≡ Some (pipe_file n.now.store p.now) }
    ensures small { result < 16777216 }
{
    n.node(p.ino).size
}
