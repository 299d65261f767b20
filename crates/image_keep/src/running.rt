//! The process that executes instructions: what stays fixed of it meanwhile. The segmentation registers in Lions' Commentary,
//! `sureg` in `main.c`.
ghost use Rattle.std.specs.Prelude.{◌≡◌};
ghost use Rattle.image_keep.specs.Standing.{IsNear};

use crate::standing::Standing;
use crate::starts::Starts;
use v6_base::Slot;

/// What stays fixed of a process while it executes instructions: its slot, and where its u area, its text, its data and its
/// stack stand. It holds as long as no process ends, forks or gets another image, place or text.
#[derive(Clone, Copy, Debug, PartialEq, Eq)]
pub struct Fixed {
    pub slot: Slot,
    /// The same as an index.
    pub(crate) index: usize,
    pub(crate) starts: Starts,
    /// The same as places in core, where it is there.
    pub(crate) standing: Standing,
    /// The same once more: the compiler forms the address of a field where it is used only as long as few uses do.
    pub(crate) again: Standing,
    pub(crate) ghost indexed: { index ≡ slot },
    pub(crate) ghost same: { again ≡ standing },
    pub(crate) ghost near: { IsNear standing starts },
}
