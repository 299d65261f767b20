//! What a call asks for: its number and its arguments. `trap` in Lions' Commentary, `trap.c`; indirect calls, indir(II)
//! of the manual.
ghost use Rattle.std.specs.Prelude.{◌≡◌, slice_index};
ghost use Rattle.image_keep.specs.Kept.{Held, Has, IsKept};
ghost use Rattle.image_keep.specs.Running.{IsFixed};
ghost use Rattle.abstract_unix.specs.Calls.{word_at, arguments_at, named_call, asked};

use crate::files::see_kept;
use abstract_unix::Asked;
use image_keep::{Fixed, Images};
use u_area::register;

/// What a word counts as that can't be read.
const ONES: u16 = 0o177777;

/// The words of calls: the first and the last.
const FIRST_CALL: u16 = 0o104400;

const LAST_CALL: u16 = 0o104477;

/// A number that is no call's.
const NO_CALL: u8 = 63;

/// A word of the memory of the process of which this is fixed. One that can't be read is all ones.
#[inline(always)]
fn word_at(images: &Images, fixed: &Fixed, at: u16) -> u16
    requires { IsFixed images.now.kept fixed.now }
    ensures { (held : Held) → Has images.now.kept fixed.now.slot held → result ≡ word_at held.image at }
{
    images.word_or(fixed, at, ONES)
}

/// The words that a call may take as its arguments, from an address on.
#[inline(always)]
fn arguments_at(images: &Images, fixed: &Fixed, at: u16) -> [u16; 4]
    requires { IsFixed images.now.kept fixed.now }
    ensures { (held : Held) → Has images.now.kept fixed.now.slot held → result ≡ arguments_at held.image at }
{
    images.words_or(fixed, at, ONES)
}

/// The call that a word names.
fn named_call(word: u16) -> u8
    ensures { result ≡ named_call word }
{
    if (FIRST_CALL..=LAST_CALL).contains(&word) {
        (word % 64) as u8
    } else {
        NO_CALL
    }
}

/// What a call of this number asks for, where the PC has passed its word.
#[inline(always)]
pub(crate) fn ask(images: &Images, fixed: &Fixed, number: u8) -> Asked
    requires { IsFixed images.now.kept fixed.now }
    ensures asked { (held : Held) → Has images.now.kept fixed.now.slot held → result ≡ asked held.image (slice_index held.u.r 7) number }
    ensures holds { IsKept images.now.kept }
{
    see_kept(images);
    let pc = register(images.area_bytes_at(fixed), 7);
    if number != 0 {
        return Asked {
            number,
            args: arguments_at(images, fixed, pc),
            is_indirect: false,
        };
    }
    let at = word_at(images, fixed, pc);
    Asked {
        number: named_call(word_at(images, fixed, at)),
        args: arguments_at(images, fixed, at.wrapping_add(2)),
        is_indirect: true,
    }
}
