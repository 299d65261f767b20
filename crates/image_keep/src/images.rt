//! The images of all slots, in core and in the swap area.
ghost use Rattle.std.specs.Prelude.{◌≡◌, ◌*◌, ◌<◌, ◌≤◌, None, Some, IfOk, IfErr, MatchResult, length, replicate};
ghost use Rattle.image_keep.specs.declared.memory.TheConstants.{SWAP_BYTES};
ghost use Rattle.image_keep.specs.Kept.{first_kept, IsKept, HasImage, HasGrave, place_of, area_of, with_keeping, text_of, Nothing};
ghost use Rattle.image_keep.specs.Growth.{most_clicks};
ghost use Rattle.image_keep.specs.Memory.{no_row};
ghost use Rattle.image_keep.specs.Places.{swap_fit, with_grave_at};
ghost use Rattle.u_area.specs.Area.{IsSized, half_bytes};

use crate::memory::Memory;
use crate::parts::{
    block_click, give_back, grave_block, grave_row, nothing_row, place_click, place_in, place_of,
    row_of, set_row,
};
use crate::row::{Row, State};
use fs_codec::SWAP_START;
use map_fit::Holes;
use std::alloc::{AllocError, Global};
use std::marker::Model;
use text_tab::Texts;
use v6_base::{Place, Slot};

/// The slots of the table of processes: `NPROC` in Lions' Commentary.
const SLOTS: usize = 50;

/// How many blocks the swap area has.
const SWAP_BLOCKS: u16 = 872;

/// The most clicks that an image may have, where core is as large.
const MOST_CLICKS: u16 = 2048;

/// There is no room in the swap area: Lions' Commentary, `panic("out of swap space")`.
#[derive(Clone, Copy, Debug, PartialEq, Eq)]
pub struct NoSwap;

/// The images of fifty slots in core and in the swap area, with their u areas, their texts, and what is kept of those who
/// have ended.
#[derive(Drop)]
pub struct Images {
    pub(crate) memory: Memory,
    pub(crate) core: u16,
    pub(crate) rows: Vec<Row>,
    pub(crate) texts: Texts,
    pub(crate) core_map: Holes,
    pub(crate) swap_map: Holes,
}

impl Model for Images {
    ghost use Rattle.image_keep.specs.State.{ImagesState};

    ghost Value = { ImagesState };

    ghost use Rattle.image_keep.specs.Inside.{state_of, AreImages};

    ghost view = { state_of };

    ghost invariant = { AreImages };
}

/// The row of a slot that has nothing.
fn empty_row() -> Row
    ensures { result ≡ no_row }
{
    Row {
        state: State::Nothing,
        data_size: 0,
        stack_size: 0,
        text: None,
    }
}

/// Fifty slots that have nothing.
fn empty_rows(alloc: Global) -> Result<Vec<Row>, AllocError>
    ensures { IfOk result (λ rows. rows.items ≡ replicate 50 no_row) }
{
    vec![in alloc; empty_row(); SLOTS]
}

impl Images {
    /// Fifty slots without an image, beside a core of so many clicks, which is cleared, and a swap area of these bytes.
    /// All the memory that they will ever use is taken here.
    ///
    /// # Errors
    ///
    /// There is no memory for them.
    pub fn new(alloc: Global, core: u16, swap: &[u8]) -> Result<Images, AllocError>
        requires least { 64 ≤ core }
        requires most { core ≤ 3968 }
        requires swap { length swap.now ≡ SWAP_BYTES }
        ensures kept { IfOk result (λ images. images.kept ≡ first_kept core) }
        ensures core { IfOk result (λ images. images.core ≡ replicate (64 * core) 0) }
        ensures swap { IfOk result (λ images. images.swap ≡ swap.now) }
    {
        Ok(Images {
            memory: Memory::new(alloc, core, swap)?,
            core,
            rows: empty_rows(alloc)?,
            texts: Texts::new(),
            core_map: Holes::new(1, core),
            swap_map: Holes::new(SWAP_START, SWAP_BLOCKS),
        })
    }

    /// Where a slot's image stands, or what is kept of a process that has ended.
    pub fn place(&self, s: Slot) -> Option<Place>
        requires { s < 50 }
        ensures place { result ≡ place_of self.now.kept s }
        ensures holds { IsKept self.now.kept }
    {
        self.memory.see_bytes();
        let row = row_of(&self.rows, s as usize);
        place_in(row)
    }

    /// The most clicks that an image may have, its u area among them.
    pub fn limit(&self) -> u16
        ensures { result ≡ most_clicks self.now.kept }
    {
        self.core.min(MOST_CLICKS)
    }

    /// Keeps of a process that ends half of its u area, in a block of the swap area, which is the answer. Lions'
    /// Commentary, `exit` in `sys1.c`.
    ///
    /// # Errors
    ///
    /// `NoSwap`: exactly where the swap area has no free block. Nothing has changed then.
    pub fn end(&mut self, s: Slot) -> Result<u16, NoSwap>
        requires image { HasImage self.old.kept s }
        requires no_text { text_of self.old.kept s ≡ None }
        ensures block { MatchResult result (λ block. swap_fit self.old.kept 1 ≡ Some block) (λ _. swap_fit self.old.kept 1 ≡ None) }
        ensures kept { self.new.kept ≡ with_grave_at self.old.kept s (area_of self.old.kept s) (swap_fit self.old.kept 1) }
        ensures stays { IfErr result (λ _. self.new ≡ self.old) }
    {
        let row = row_of(&self.rows, s as usize);
        let from = place_click(self.core, place_of(row));
        let _ = self.core_map.count();
        let _ = self.swap_map.count();
        let block = match self.swap_map.take(1) {
            Some(block) => block,
            None => return Err(NoSwap),
        };
        let to = block_click(self.core, block);
        self.memory.copy(from, to, 8);
        give_back(&mut self.core_map, &mut self.swap_map, row);
        set_row(&mut self.rows, s as usize, grave_row(row, block));
        Ok(block)
    }

    /// Takes a slot's image away: its place is free. Lions' Commentary, `exec` in `sys1.c`.
    pub fn bare(&mut self, s: Slot)
        requires image { HasImage self.old.kept s }
        requires no_text { text_of self.old.kept s ≡ None }
        ensures { self.new.kept ≡ with_keeping self.old.kept s Nothing }
    {
        let row = row_of(&self.rows, s as usize);
        let _ = self.core_map.count();
        let _ = self.swap_map.count();
        give_back(&mut self.core_map, &mut self.swap_map, row);
        set_row(&mut self.rows, s as usize, nothing_row(row));
    }

    /// Gives what is kept of a process that has ended, and frees its slot and its block. Lions' Commentary, `wait` in
    /// `sys1.c`.
    pub fn reap(&mut self, s: Slot) -> [u8; 512]
        requires { HasGrave self.old.kept s }
        ensures half { result ≡ half_bytes (area_of self.old.kept s) }
        ensures sized { IsSized (area_of self.old.kept s) }
        ensures kept { self.new.kept ≡ with_keeping self.old.kept s Nothing }
    {
        let row = row_of(&self.rows, s as usize);
        let block = grave_block(row);
        let at = block_click(self.core, block);
        let mut half = [0; 512];
        self.memory.half(at, &mut half);
        let _ = self.core_map.count();
        let _ = self.swap_map.count();
        self.swap_map.give(block, 1);
        set_row(&mut self.rows, s as usize, nothing_row(row));
        half
    }
}
