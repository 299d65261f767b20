//! The pipes that are open: `pipe.c` in Lions' Commentary.
ghost use Rattle.std.specs.Prelude.{◌≡◌, ◌<◌, ◌==◌, ◌∷◌, ◌++◌, [], IfSome, length, position, slice_index_or};
ghost use Rattle.pipe_ends.specs.declared.ends.Pipe.{Pipe};
ghost use Rattle.sys_files.specs.Pipes.{new_pipe, place_of, pipe_of, with_pipe, without_pipe};

use arrayvec::ArrayVec;
use pipe_ends::Pipe;
use std::marker::Model;

/// The most pipes: each has an open file at least, of which there are a hundred.
const MOST: usize = 100;

/// The pipes that are open, in the order in which they were made.
#[derive(Drop)]
pub struct Pipes {
    list: ArrayVec<Pipe, MOST>,
}

impl Model for Pipes {
    ghost use Rattle.std.specs.Prelude.{List};
    ghost use Rattle.pipe_ends.specs.declared.ends.Pipe.{Pipe};

    ghost Value = { List Pipe };

    ghost view = { λ p. p.list.items };
}

/// The place of the first pipe of an inode.
fn find(list: &[Pipe], ino: u16) -> Option<usize>
    ensures place { result ≡ position (λ (p : Pipe). p.ino == ino) list.now }
    ensures here { IfSome result (λ k. (p : Pipe) → (slice_index_or list.now k p).ino ≡ ino) }
{
    list.iter().position(|pipe| pipe.ino == ino)
}

/// Where the pipe of an inode stands.
fn place_of(list: &[Pipe], ino: u16) -> usize
    requires { place_of list.now ino < length list.now }
    ensures place { result ≡ place_of list.now ino }
    ensures here { (p : Pipe) → (slice_index_or list.now result p).ino ≡ ino }
{
    match find(list, ino) {
        Some(k) => k,
        None => 0,
    }
}

impl Pipes {
    /// No pipe is open.
    pub fn new() -> Pipes
        ensures { result ≡ [] }
    {
        Pipes {
            list: ArrayVec::new(),
        }
    }

    /// Adds a pipe that has just been made, by its inode.
    pub(crate) fn add(&mut self, ino: u16)
        requires { length self.old < MOST }
        ensures { self.new ≡ self.old ++ new_pipe ino ∷ [] }
    {
        self.list.push(Pipe {
            ino,
            offset: 0,
            reader_waits: false,
            writer_waits: false,
        });
    }

    /// The pipe of an inode.
    pub(crate) fn get(&self, ino: u16) -> Pipe
        requires { place_of self.now ino < length self.now }
        ensures value { result ≡ pipe_of self.now ino }
        ensures ino { result.ino ≡ ino }
    {
        self.list[place_of(&self.list, ino)]
    }

    /// Puts a pipe where the one of its inode stood.
    pub(crate) fn set(&mut self, pipe: Pipe)
        requires { place_of self.old pipe.ino < length self.old }
        ensures { self.new ≡ with_pipe self.old pipe }
    {
        let k = place_of(&self.list, pipe.ino);
        self.list[k] = pipe;
    }

    /// Takes the pipe of an inode away.
    pub(crate) fn remove(&mut self, ino: u16)
        requires { place_of self.old ino < length self.old }
        ensures { self.new ≡ without_pipe self.old ino }
    {
        let k = place_of(&self.list, ino);
        let _gone = self.list.remove(k);
    }
}
