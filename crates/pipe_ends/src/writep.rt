//! Writes of a pipe: writep in Lions' Commentary, `pipe.c`.
ghost use Rattle.std.specs.Prelude.{◌≡◌, ◌↔◌, ◌<◌, ◌≤◌, ℕ, true};
ghost use Rattle.fs_nodes.specs.FileSystem.{SameRest};
ghost use Rattle.pipe_ends.specs.Pipes.{pipe_file, ends_of};
ghost use Rattle.pipe_ends.specs.Queue.{IsQueue, GoesToEnd};
ghost use Rattle.pipe_ends.specs.Writes.{WriteCall, Writing, fitting, append_of, appended, writes};
ghost use Rattle.pipe_ends.specs.declared.ends.Piped.{Piped};
ghost use Rattle.pipe_ends.specs.declared.ends.TheConstants.{PIPSIZ};

use crate::ends::{PIPSIZ, Pipe, Piped, is_broken, size_of};
use fs_nodes::Nodes;
use v6_base::{Errno, Space};

/// Appends bytes to the file of a pipe. A reader that waits is woken.
fn append<S: Space>(
    n: &mut Nodes,
    p: &mut Pipe,
    space: &S,
    at: u16,
    len: u16,
    time: u32,
) -> Option<Errno>
    requires referenced { 0 < ends_of n.old.references p.old }
    ensures come { (c : WriteCall) (w : Writing) → c.image ≡ S.image space.now → c.time ≡ time
        → w.store ≡ n.old.store → w.pipe ≡ p.old → w.at ≡ at → fitting w ≡ len
        → (n.new.store ≡ (appended w (append_of c w)).store) × (p.new ≡ (appended w (append_of c w)).pipe)
        × (result ≡ (append_of c w).error) }
    ensures references { n.new.references ≡ n.old.references }
    ensures rest { SameRest n.old n.new }
{
    let size = size_of(n, p);
    let written = n.write_at(p.ino, size, space, at, len, time);
    p.reader_waits = false;
    written.error
}

/// Repeats the tests of a write until one of them ends it.
fn repeat_tests<S: Space>(
    n: &mut Nodes,
    p: &mut Pipe,
    space: &S,
    at: u16,
    count: u16,
    time: u32,
) -> Piped
    requires referenced { 0 < ends_of n.old.references p.old }
    ensures store { n.new.store
        ≡ (writes n.old.store (ends_of n.old.references p.old) p.old (S.image space.now) at count time).store }
    ensures pipe { p.new
        ≡ (writes n.old.store (ends_of n.old.references p.old) p.old (S.image space.now) at count time).pipe }
    ensures answer { result
        ≡ (writes n.old.store (ends_of n.old.references p.old) p.old (S.image space.now) at count time).answer }
    ensures references { n.new.references ≡ n.old.references }
    ensures rest { SameRest n.old n.new }
{
    let mut left = count;
    while left > 0 {
        if is_broken(n, p) {
            return Piped::Broken;
        }
        let size = size_of(n, p);
        if size >= PIPSIZ {
            p.writer_waits = true;
            return Piped::Wait { left };
        }
        let len = left.min((PIPSIZ - size) as u16);
        let from = at.wrapping_add(count - left);
        if let Some(e) = append(n, p, space, from, len, time) {
            return Piped::Error(e);
        }
        left -= len;
    }
    Piped::Done(count)
}

/// Writes bytes from the memory of a process into a pipe, `count` from address `at` on. What fits is appended, and a reader
/// that waits is woken; where bytes are left and the pipe is full the writer waits, with the number of bytes that are left.
/// Where nobody can read them the pipe is broken. A reader is woken exactly where `reader_waits` is cleared. write(II),
/// pipe(II).
///
/// # Errors
///
/// `ENOSPC` and `EFAULT` as in [`Nodes::write_at`]. What was done before stays done.
pub fn write<S: Space>(
    n: &mut Nodes,
    p: &mut Pipe,
    space: &S,
    at: u16,
    count: u16,
    time: u32,
) -> Piped
    requires referenced { 0 < ends_of n.old.references p.old }
    ensures store { n.new.store
        ≡ (writes n.old.store (ends_of n.old.references p.old) p.old (S.image space.now) at count time).store }
    ensures pipe { p.new
        ≡ (writes n.old.store (ends_of n.old.references p.old) p.old (S.image space.now) at count time).pipe }
    ensures answer { result
        ≡ (writes n.old.store (ends_of n.old.references p.old) p.old (S.image space.now) at count time).answer }
    ensures broken { (result ≡ Piped.Broken) ↔ ((0 < count) × (ends_of n.old.references p.old < 2)) }
    ensures waits { (left : ℕ) → result ≡ Piped.Wait left → (0 < left) × (2 ≤ ends_of n.old.references p.old)
        × (PIPSIZ ≤ (pipe_file n.new.store p.new).size) × (p.new.writer_waits ≡ true) }
    ensures queue { IsQueue n.old.store p.old → GoesToEnd n.old.store p.old (S.image space.now) at count
        (record { store = n.new.store; pipe = p.new; answer = result }) }
    ensures references { n.new.references ≡ n.old.references }
    ensures rest { SameRest n.old n.new }
{
    repeat_tests(n, p, space, at, count, time)
}
