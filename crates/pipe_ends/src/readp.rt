//! Reads of a pipe: readp in Lions' Commentary, `pipe.c`.
ghost use Rattle.std.specs.Prelude.{◌≡◌, ◌↔◌, ◌<◌, ◌≤◌};
ghost use Rattle.fs_nodes.specs.FileSystem.{SameRest};
ghost use Rattle.pipe_ends.specs.Pipes.{pipe_file, ends_of, begun_again};
ghost use Rattle.pipe_ends.specs.Queue.{IsQueue, ComesFromFront};
ghost use Rattle.pipe_ends.specs.Reads.{at_front, told_of_nothing, read_of, reads_some, reads};
ghost use Rattle.pipe_ends.specs.declared.ends.Piped.{Piped};

use crate::ends::{Pipe, Piped, is_broken, size_of};
use fs_nodes::Nodes;
use v6_base::Space;

/// Begins the file of a pipe from its front again.
fn begin_again(n: &mut Nodes, p: &Pipe)
    requires referenced { 0 < ends_of n.old.references p.now }
    ensures store { n.new.store ≡ begun_again n.old.store p.now }
    ensures references { n.new.references ≡ n.old.references }
    ensures rest { SameRest n.old n.new }
{
    // The inode of this number is known to be there once it has been looked at.
    let _size = size_of(n, p);
    n.empty_pipe(p.ino);
}

/// Reads from a pipe of which all has been read. A writer that waits is woken.
fn read_nothing(n: &mut Nodes, p: &mut Pipe, count: u16) -> Piped
    requires referenced { 0 < ends_of n.old.references p.old }
    ensures store { n.new.store ≡ begun_again n.old.store p.old }
    ensures pipe { p.new ≡ at_front (ends_of n.old.references p.old) p.old }
    ensures answer { result ≡ told_of_nothing (ends_of n.old.references p.old) count }
    ensures references { n.new.references ≡ n.old.references }
    ensures rest { SameRest n.old n.new }
{
    begin_again(n, p);
    p.offset = 0;
    p.writer_waits = false;
    if is_broken(n, p) {
        return Piped::Done(0);
    }
    p.reader_waits = true;
    Piped::Wait { left: count }
}

/// Reads bytes that were written and not yet read.
fn read_some<S: Space>(
    n: &mut Nodes,
    p: &mut Pipe,
    space: &mut S,
    at: u16,
    count: u16,
    time: u32,
) -> Piped
    requires referenced { 0 < ends_of n.old.references p.old }
    ensures store { n.new.store
        ≡ (reads_some n.old.store p.old (read_of n.old.store p.old (S.image space.old) at count time)).store }
    ensures image { S.image space.new
        ≡ (reads_some n.old.store p.old (read_of n.old.store p.old (S.image space.old) at count time)).image }
    ensures pipe { p.new
        ≡ (reads_some n.old.store p.old (read_of n.old.store p.old (S.image space.old) at count time)).pipe }
    ensures answer { result
        ≡ (reads_some n.old.store p.old (read_of n.old.store p.old (S.image space.old) at count time)).answer }
    ensures memory { S.rest space.new ≡ S.rest space.old }
    ensures references { n.new.references ≡ n.old.references }
    ensures rest { SameRest n.old n.new }
{
    let _size = size_of(n, p);
    let read = n.read_at(p.ino, p.offset, space, at, count, time);
    p.offset = p.offset.wrapping_add(u32::from(read.done));
    match read.error {
        None => Piped::Done(read.done),
        Some(e) => Piped::Error(e),
    }
}

/// Reads from a pipe into the memory of a process, `count` bytes at most, from address `at` on. Where all has been read the
/// file begins from its front again, and a writer that waits is woken; then the reader waits, unless the other end is gone,
/// which is the end of the file: the count is 0. A writer is woken exactly where `writer_waits` is cleared. read(II), pipe(II).
///
/// # Errors
///
/// `ENOSPC` and `EFAULT` as in [`Nodes::read_at`].
#[tactic(auto, unfolding(crate::specs::Reads::reads))]
pub fn read<S: Space>(
    n: &mut Nodes,
    p: &mut Pipe,
    space: &mut S,
    at: u16,
    count: u16,
    time: u32,
) -> Piped
    requires referenced { 0 < ends_of n.old.references p.old }
    ensures store { n.new.store
        ≡ (reads n.old.store (ends_of n.old.references p.old) p.old (S.image space.old) at count time).store }
    ensures image { S.image space.new
        ≡ (reads n.old.store (ends_of n.old.references p.old) p.old (S.image space.old) at count time).image }
    ensures pipe { p.new
        ≡ (reads n.old.store (ends_of n.old.references p.old) p.old (S.image space.old) at count time).pipe }
    ensures answer { result
        ≡ (reads n.old.store (ends_of n.old.references p.old) p.old (S.image space.old) at count time).answer }
    ensures waits { (result ≡ Piped.Wait count)
        ↔ ((2 ≤ ends_of n.old.references p.old) × (p.old.offset ≡ (pipe_file n.old.store p.old).size)) }
    ensures queue { IsQueue n.old.store p.old → ComesFromFront n.old.store p.old (S.image space.old) at count
        (record { store = n.new.store; image = S.image space.new; pipe = p.new; answer = result }) }
    ensures memory { S.rest space.new ≡ S.rest space.old }
    ensures references { n.new.references ≡ n.old.references }
    ensures rest { SameRest n.old n.new }
{
    if p.offset == size_of(n, p) {
        return read_nothing(n, p, count);
    }
    read_some(n, p, space, at, count, time)
}
