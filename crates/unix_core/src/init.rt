//! The program of process 1: `icode` in Lions' Commentary, `main.c`.
ghost use Rattle.std.specs.Prelude.{◌≡◌, ◌++◌, [], drop, length, replicate};
ghost use Rattle.fs_codec.specs.Bytes.{bytes_of};
ghost use Rattle.image_keep.specs.Kept.{HasImage, image_of, with_image};
ghost use Rattle.image_keep.specs.Lent.{outside_of};
ghost use Rattle.abstract_unix.specs.Init.{init_words, init_data};

use crate::files::see_kept;
use sys_procs::Procs;
use v6_base::{Slot, Space};

/// exec, with the name at 014 and the list of arguments at 010, and a branch to itself; the list, which is the name and the
/// end; and the name, `/etc/init`.
const PROGRAM: [u16; 11] = [
    0o104413, 0o000014, 0o000010, 0o000777, 0o000014, 0o000000, 0o062457, 0o061564, 0o064457,
    0o064556, 0o000164,
];

/// Stores the program at the front of the data, one click, of an image with no text.
fn store_program<S: Space>(space: &mut S)
    requires text { (S.image space.old).text ≡ [] }
    requires data { length (S.image space.old).data ≡ 64 }
    ensures image { S.image space.new
        ≡ record (S.image space.old) { «data» = bytes_of init_words ++ drop 22 (S.image space.old).data } }
    ensures rest { S.rest space.new ≡ S.rest space.old }
{
    for i in 0..11 {
        let _ = space.store_word(2 * i as u16, PROGRAM[i]);
    }
}

/// Puts the program at the front of the data of a slot, one click that is cleared.
pub(crate) fn put_program(procs: &mut Procs, s: Slot)
    requires image { HasImage procs.old.images.kept s }
    requires no_text { (image_of procs.old.images.kept s).text ≡ [] }
    requires cleared { (image_of procs.old.images.kept s).data ≡ replicate 64 0 }
    ensures kept { procs.new.images.kept ≡ with_image procs.old.images.kept s (record (image_of procs.old.images.kept s) { «data» = init_data }) }
    ensures bytes { outside_of procs.new.images s ≡ outside_of procs.old.images s }
    ensures others { procs.new ≡ record procs.old { images = procs.new.images } }
{
    see_kept(&procs.images);
    let mut space = procs.images.space(s);
    store_program(&mut space);
}
