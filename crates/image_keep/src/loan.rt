//! The memory of one process, lent out of all images.
ghost use Rattle.std.specs.Prelude.{◌≡◌};
ghost use Rattle.v6_base.specs.Image.{IsImage};
ghost use Rattle.image_keep.specs.Kept.{image_of, HasImage};
ghost use Rattle.image_keep.specs.Running.{IsFixed};
ghost use Rattle.image_keep.specs.Starts.{AreStarts};

use crate::images::Images;
use crate::running::Fixed;
use crate::starts::Starts;
use v6_base::{Slot, Space, Trap};

/// The memory of the process in one slot, as a loan of all images. A store changes the image of this slot, and leaves all
/// else. Where its parts stand is looked up once.
#[derive(Drop)]
pub struct SpaceOf<'a> {
    images: &'a mut Images,
    slot: usize,
    starts: Starts,
    ghost are: { AreStarts images.now.kept slot starts },
    ghost formed: { IsImage (image_of images.now.kept slot) },
}

impl Images {
    /// The memory of the process in a slot, which has an image.
    pub fn space(&mut self, s: Slot) -> SpaceOf<'_>
        requires { HasImage self.old.kept s }
        ensures images { result.images.now ≡ self.entry.now }
        ensures loan { result.images.ghost_name ≡ self.entry.ghost_name }
        ensures slot { result.slot ≡ s }
    {
        SpaceOf {
            starts: self.starts(s),
            images: self,
            slot: s as usize,
        }
    }

    /// The memory of the process of which this is fixed.
    #[inline(always)]
    pub fn space_at(&mut self, fixed: &Fixed) -> SpaceOf<'_>
        requires { IsFixed self.old.kept fixed.now }
        ensures images { result.images.now ≡ self.entry.now }
        ensures loan { result.images.ghost_name ≡ self.entry.ghost_name }
        ensures slot { result.slot ≡ fixed.now.slot }
    {
        self.see_kept();
        SpaceOf {
            images: self,
            slot: fixed.slot as usize,
            starts: fixed.starts,
        }
    }
}

#[tactic(auto, using(crate::proofs::Frames::stores))]
impl Space for SpaceOf<'_> {
    ghost use Rattle.image_keep.specs.Kept.{image_of};
    ghost use Rattle.image_keep.specs.Lent.{Lent, left_of, outside_of};

    ghost image = { λ space. image_of space.images.now.kept space.slot };

    ghost Rest = { Lent };

    ghost rest = { λ space. record {
      loan = space.images.ghost_name;
      slot = space.slot;
      left = left_of space.images.now.kept space.slot;
      outside = outside_of space.images.now space.slot;
    } };

    #[inline(always)]
    fn load_byte(&self, at: u16) -> Result<u8, Trap> {
        self.images.load_byte(self.slot, &self.starts, at)
    }

    #[inline(always)]
    fn load_word(&self, at: u16) -> Result<u16, Trap> {
        self.images.load_word(self.slot, &self.starts, at)
    }

    #[inline(always)]
    fn store_byte(&mut self, at: u16, value: u8) -> Result<(), Trap> {
        self.images.store_byte(self.slot, &self.starts, at, value)
    }

    #[inline(always)]
    fn store_word(&mut self, at: u16, value: u16) -> Result<(), Trap> {
        self.images.store_word(self.slot, &self.starts, at, value)
    }

    fn copy_in(&self, at: u16, into: &mut [u8]) -> bool {
        self.images.copy_in(self.slot, &self.starts, at, into)
    }

    fn copy_out(&mut self, at: u16, bytes: &[u8]) -> bool {
        self.images.copy_out(self.slot, &self.starts, at, bytes)
    }

    ghost formed = { λ space. space.formed };
}
