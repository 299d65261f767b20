//! The arguments of a new program: `exec` in Lions' Commentary, `sys1.c`.
ghost use Rattle.std.specs.Prelude.{◌≡◌, ◌≤◌, length};
ghost use Rattle.std.specs.List.{concat};
ghost use Rattle.image_keep.specs.Kept.{HasImage, image_of};
ghost use Rattle.sys_procs.specs.inside.Packed.{split};
ghost use Rattle.sys_procs.specs.Stack.{fubyte, fuword, next_argument, next_reading, arguments, na, nc, first_sp};

use image_keep::Images;
use std::marker::Model;
use v6_base::{Errno, Slot, Space};

/// The most bytes that arguments may have, with their NULs.
const MOST_BYTES: u16 = 510;

/// Where the reading of arguments stands: at a byte of one of them, with the rest of the list at an address.
#[derive(Clone, Copy)]
pub(crate) struct Reading {
    list: u16,
    at: u16,
}

/// Arguments with their NULs, one after another: at most 510 bytes.
#[derive(Drop)]
pub(crate) struct Arguments {
    bytes: [u8; 512],
    length: u16,
    count: u16,
}

impl Model for Arguments {
    ghost use Rattle.std.specs.Prelude.{ℕ, List};

    ghost Value = { List (List ℕ) };

    ghost use Rattle.sys_procs.specs.inside.Packed.{arguments_in, ArePacked};

    ghost view = { arguments_in };

    ghost invariant = { ArePacked };
}

/// A byte of the old program's memory.
fn fubyte<S: Space>(space: &S, at: u16) -> Result<u8, Errno>
    ensures { result ≡ fubyte (S.image space.now) at }
{
    match space.load_byte(at) {
        Ok(byte) => Ok(byte),
        Err(_) => Err(Errno::EFAULT),
    }
}

/// A word of the old program's memory.
fn fuword<S: Space>(space: &S, at: u16) -> Result<u16, Errno>
    ensures { result ≡ fuword (S.image space.now) at }
{
    match space.load_word(at) {
        Ok(word) => Ok(word),
        Err(_) => Err(Errno::EFAULT),
    }
}

/// The first byte of the next argument of a list, or none at the list's end.
fn next_argument<S: Space>(space: &S, list: u16) -> Result<Option<Reading>, Errno>
    ensures { result ≡ next_argument (S.image space.now) list }
{
    let at = fuword(space, list)?;
    if at == 0 {
        return Ok(None);
    }
    Ok(Some(Reading {
        list: list.wrapping_add(2),
        at,
    }))
}

/// Where the reading goes on after a byte: a NUL ends an argument.
fn next_reading<S: Space>(space: &S, r: Reading, byte: u8) -> Result<Option<Reading>, Errno>
    ensures { result ≡ next_reading (S.image space.now) r byte }
{
    if byte == 0 {
        return next_argument(space, r.list);
    }
    Ok(Some(Reading {
        list: r.list,
        at: r.at.wrapping_add(1),
    }))
}

/// Reads the arguments of a list of addresses, byte by byte.
fn read_list<S: Space>(space: &S, list: u16) -> Result<Arguments, Errno>
    ensures { result ≡ arguments (S.image space.now) list }
{
    let mut bytes = [0; 512];
    let mut length: u16 = 0;
    let mut count: u16 = 0;
    let mut next = next_argument(space, list)?;
    while let Some(r) = next {
        let byte = fubyte(space, r.at)?;
        if length == MOST_BYTES {
            return Err(Errno::E2BIG);
        }
        bytes[length as usize] = byte;
        length += 1;
        if byte == 0 {
            count += 1;
        }
        next = next_reading(space, r, byte)?;
    }
    Ok(Arguments {
        bytes,
        length,
        count,
    })
}

/// Reads the arguments of a list of addresses, byte by byte, out of the memory of the process in a slot.
///
/// # Errors
///
/// `EFAULT`: a byte or a word can't be read. `E2BIG`: there are more than 510 bytes.
pub(crate) fn read_arguments(images: &mut Images, s: Slot, list: u16) -> Result<Arguments, Errno>
    requires { HasImage images.old.kept s }
    ensures arguments { result ≡ arguments (image_of images.old.kept s) list }
    ensures images { images.new ≡ images.old }
{
    let space = images.space(s);
    read_list(&space, list)
}

impl Arguments {
    /// Their bytes, with their NULs, one after another.
    pub(crate) fn bytes(&self) -> &[u8]
        ensures bytes { result.now ≡ concat self.now }
        ensures split { split result.now ≡ self.now }
        ensures few { length result.now ≤ 510 }
    {
        &self.bytes[..self.length as usize]
    }

    /// The number of arguments.
    pub(crate) fn count(&self) -> u16
        ensures count { result ≡ na self.now }
        ensures few { result ≤ 510 }
    {
        self.count
    }

    /// The bytes of the strings at the end of memory, made even by a NUL.
    pub(crate) fn strings_size(&self) -> u16
        ensures size { result ≡ nc self.now }
        ensures few { result ≤ 510 }
    {
        self.length + self.length % 2
    }

    /// Where the stack pointer stands as the program begins.
    pub(crate) fn first_sp(&self) -> u16
        ensures { result ≡ first_sp self.now }
    {
        65532 - self.strings_size() - 2 * self.count()
    }
}
