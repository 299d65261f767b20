//! What stands in core and in the swap area.
ghost use Rattle.std.specs.Prelude.{◌≡◌, ◌*◌, ◌<◌, slice_index};
ghost use Rattle.image_keep.specs.declared.memory.TheConstants.{SWAP_BYTES};
ghost use Rattle.image_keep.specs.Holds.{MemoryHolds};

use crate::images::Images;

impl Images {
    /// The bytes of core. It holds the images and the texts that are there.
    pub fn core(&self) -> &[u8]
        ensures bytes { result.now ≡ self.now.core }
        ensures holds { MemoryHolds self.now.core self.now.swap self.now.kept }
    {
        self.memory.core_bytes()
    }

    /// The bytes of the swap area. It holds the images that are out of core, half of the u area of each process that has
    /// ended, and all texts.
    pub fn swap(&self) -> &[u8]
        ensures bytes { result.now ≡ self.now.swap }
        ensures holds { MemoryHolds self.now.core self.now.swap self.now.kept }
    {
        self.memory.swap_bytes()
    }

    /// A byte of core.
    pub fn core_byte(&self, at: u32) -> u8
        requires { at < 64 * self.now.kept.core }
        ensures byte { result ≡ slice_index self.now.core at }
        ensures holds { MemoryHolds self.now.core self.now.swap self.now.kept }
    {
        self.memory.core_byte(at as usize)
    }

    /// A byte of the swap area.
    pub fn swap_byte(&self, at: u32) -> u8
        requires { at < SWAP_BYTES }
        ensures byte { result ≡ slice_index self.now.swap at }
        ensures holds { MemoryHolds self.now.core self.now.swap self.now.kept }
    {
        self.memory.swap_byte(at as usize)
    }
}
