//! The stack with which a program begins: exec(II).
ghost use Rattle.std.specs.Prelude.{◌≡◌, ◌+◌, ◌-◌, ◌%◌, ◌≤◌, ◌<◌, ℕ, List, [], ◌∷◌, ◌++◌, length, replicate};
ghost use Rattle.std.specs.List.{concat};
ghost use Rattle.fs_codec.specs.Bytes.{bytes_of};
ghost use Rattle.v6_base.specs.Sizes.{cut_front};
ghost use Rattle.sys_procs.specs.inside.Packed.{split, begins_at};
ghost use Rattle.sys_procs.specs.Stack.{addresses, first_stack, made_even};

use crate::arguments::Arguments;
use v6_base::Space;

/// The lowest address of the stack.
const LOWEST: u16 = 0o175400;

/// The word after the addresses of the arguments.
const ONES: u16 = 0o177777;

/// Puts a word in front of the bytes with which the stack ends. It is left out where it would lie below the stack.
fn put_word<S: Space>(space: &mut S, at: u16, word: u16)
    requires even { at % 2 ≡ 0 }
    ensures image { (above : List ℕ) → (S.image space.old).stack ≡ cut_front 1280 above → at + length above + 2 ≡ 65536
        → S.image space.new ≡ record (S.image space.old) { stack = cut_front 1280 (bytes_of (word ∷ []) ++ above) } }
    ensures rest { S.rest space.new ≡ S.rest space.old }
{
    if at >= LOWEST {
        let _ = space.store_word(at, word);
    }
}

/// Puts the strings at the end of a cleared stack, made even by a NUL.
fn put_strings<S: Space>(space: &mut S, bytes: &[u8])
    requires few { length bytes.now ≤ 510 }
    requires stack { (S.image space.old).stack ≡ replicate 1280 0 }
    ensures image { S.image space.new ≡ record (S.image space.old) { stack = cut_front 1280 (made_even bytes.now) } }
    ensures rest { S.rest space.new ≡ S.rest space.old }
{
    let base = 65536 - bytes.len() - bytes.len() % 2;
    let _ = space.copy_out((base % 65536) as u16, bytes);
}

/// Whether an argument begins at a place of the bytes.
fn begins_at(bytes: &[u8], i: usize) -> bool
    requires { i < length bytes.now }
    ensures { result ≡ begins_at bytes.now i }
{
    i == 0 || bytes[i - 1] == 0
}

/// Puts the addresses of the arguments that are strings at the end of the stack, in front of the word that ends them.
fn put_addresses<S: Space>(space: &mut S, bytes: &[u8])
    requires few { length bytes.now ≤ 510 }
    requires whole { concat (split bytes.now) ≡ bytes.now }
    requires stack { (S.image space.old).stack ≡ cut_front 1280 (bytes_of (0o177777 ∷ []) ++ made_even bytes.now) }
    ensures image { S.image space.new ≡ record (S.image space.old) {
      stack = cut_front 1280
          (bytes_of (addresses (65536 - length (made_even bytes.now)) (split bytes.now) ++ 0o177777 ∷ [])
          ++ made_even bytes.now);
    } }
    ensures rest { S.rest space.new ≡ S.rest space.old }
{
    let base = 65536 - bytes.len() - bytes.len() % 2;
    let mut at = base - 2;
    let mut i = bytes.len();
    while i > 0 {
        i -= 1;
        if begins_at(bytes, i) {
            at -= 2;
            put_word(space, at as u16, (base + i) as u16);
        }
    }
}

/// Puts the arguments at the end of a cleared stack: their number, their addresses, -1, and the strings. Words that
/// would lie below its lower end are left out.
pub(crate) fn put_stack<S: Space>(space: &mut S, args: &Arguments)
    requires { (S.image space.old).stack ≡ replicate 1280 0 }
    ensures image { S.image space.new ≡ record (S.image space.old) { stack = first_stack args.now } }
    ensures rest { S.rest space.new ≡ S.rest space.old }
{
    let bytes = args.bytes();
    put_strings(space, bytes);
    put_word(space, 65534 - args.strings_size(), ONES);
    put_addresses(space, bytes);
    put_word(space, args.first_sp(), args.count());
}
