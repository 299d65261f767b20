//! Images, with what is known of each slot: so a call that its slot doesn't allow is never made.
ghost use Rattle.std.specs.Prelude.{◌≡◌, ◌<◌, ◌≤◌, true};
ghost use Rattle.image_keep.specs.Kept.{Nothing, keeping, HasImage, HasGrave, no_users};
ghost use Rattle.part_rows.specs.Kinds.{kinds_of};

use crate::kind::Kind;
use image_keep::{Images, NoSwap};
use pdp_decode::Dispatch;
use pdp_step::Outcome;
use seg_regs::Proto;
use std::alloc::{AllocError, Global};
use v6_base::{Place, Slot, Space, Trap};

/// What a process comes to: its exit status, and its times with those of its children.
#[derive(Clone, Copy)]
pub struct End {
    pub status: u16,
    pub user_time: u16,
    pub system_time: u16,
    pub child_user: u32,
    pub child_system: u32,
}

/// The images of fifty slots, of which none has a text, and what each slot has. A call gives `None` where the slot has
/// something else than it asks for.
#[derive(Drop)]
pub struct Table {
    images: Images,
    kinds: [Kind; 50],
    dispatch: Dispatch,
    ghost tied: { kinds ≡ kinds_of images.kept },
    ghost plain: { images.kept.users ≡ no_users },
}

#[tactic(auto, using(crate::proofs::TableLemmas::ties))]
impl Table {
    /// Fifty slots with nothing, beside a core of so many clicks and a swap area of zeros.
    pub fn new(alloc: Global, core: u16) -> Result<Table, AllocError>
        requires least { 64 ≤ core }
        requires most { core ≤ 3968 }
    {
        let swap = vec![in alloc; 0u8; 446464]?;
        Ok(Table {
            images: Images::new(alloc, core, &swap)?,
            kinds: [Kind::Nothing; 50],
            dispatch: Dispatch::new(alloc)?,
        })
    }

    /// Whether there is such a slot, with an image.
    fn has_image(&self, s: Slot) -> bool
        ensures { result ≡ true → (s < 50) × HasImage self.now.images.kept s }
    {
        s < 50 && self.kinds[s as usize] == Kind::Image
    }

    /// Whether there is such a slot, with nothing.
    fn has_nothing(&self, s: Slot) -> bool
        ensures { result ≡ true → (s < 50) × (keeping self.now.images.kept s ≡ Nothing) }
    {
        s < 50 && self.kinds[s as usize] == Kind::Nothing
    }

    /// Whether there is such a slot, with what is kept of a process that has ended.
    fn has_grave(&self, s: Slot) -> bool
        ensures { result ≡ true → (s < 50) × HasGrave self.now.images.kept s }
    {
        s < 50 && self.kinds[s as usize] == Kind::Grave
    }

    /// Where a slot's image stands.
    pub fn place(&self, s: Slot) -> Option<Place> {
        if s < 50 { self.images.place(s) } else { None }
    }

    /// Whether so many clicks of core are free in one piece.
    pub fn has_room(&self, clicks: u16) -> bool {
        self.images.has_room(clicks)
    }

    /// An image of these sizes in a slot with nothing.
    pub fn make(&mut self, s: Slot, d: u16, stack: u16) -> Option<Result<Place, NoSwap>> {
        let proto = Proto::make(0, d, stack, 2048).ok()?;
        if !self.has_nothing(s) {
            return None;
        }
        match self.images.replace(s, proto, None) {
            Ok(place) => {
                self.kinds[s as usize] = Kind::Image;
                Some(Ok(place))
            }
            Err(NoSwap) => Some(Err(NoSwap)),
        }
    }

    /// The most clicks that an image may have.
    pub fn limit(&self) -> u16 {
        self.images.limit()
    }

    /// Other sizes for a slot's image.
    pub fn resize(&mut self, s: Slot, d: u16, stack: u16) -> Option<Result<Place, NoSwap>> {
        if !self.has_image(s) {
            return None;
        }
        let text_size = self.images.area(s).text_size;
        let proto = Proto::make(text_size, d, stack, self.limit()).ok()?;
        Some(self.images.resize(s, proto.data_size, proto.stack_size))
    }

    /// A copy of a slot's image in a slot with nothing.
    pub fn fork(&mut self, from: Slot, to: Slot) -> Option<Result<Place, NoSwap>> {
        if !self.has_image(from) || !self.has_nothing(to) {
            return None;
        }
        match self.images.copy_for_fork(from, to) {
            Ok(place) => {
                self.kinds[to as usize] = Kind::Image;
                Some(Ok(place))
            }
            Err(NoSwap) => Some(Err(NoSwap)),
        }
    }

    /// The image of a slot goes.
    pub fn bare(&mut self, s: Slot) -> Option<()> {
        if !self.has_image(s) {
            return None;
        }
        self.images.bare(s);
        self.kinds[s as usize] = Kind::Nothing;
        Some(())
    }

    /// A slot's process ends.
    pub fn end(&mut self, s: Slot) -> Option<Result<u16, NoSwap>> {
        if !self.has_image(s) {
            return None;
        }
        match self.images.end(s) {
            Ok(block) => {
                self.kinds[s as usize] = Kind::Grave;
                Some(Ok(block))
            }
            Err(NoSwap) => Some(Err(NoSwap)),
        }
    }

    /// What is kept of a process that has ended.
    pub fn reap(&mut self, s: Slot) -> Option<[u8; 512]> {
        if !self.has_grave(s) {
            return None;
        }
        let half = self.images.reap(s);
        self.kinds[s as usize] = Kind::Nothing;
        Some(half)
    }

    /// Puts what a process comes to into the u area of a slot with an image.
    pub fn set_end(&mut self, s: Slot, end: End) -> Option<()> {
        if !self.has_image(s) {
            return None;
        }
        let mut u = self.images.area(s);
        u.status = end.status;
        (u.user_time, u.system_time) = (end.user_time, end.system_time);
        (u.child_user, u.child_system) = (end.child_user, end.child_system);
        self.images.set_area(s, &u);
        Some(())
    }

    /// The byte at an address of a slot's image.
    pub fn load(&mut self, s: Slot, at: u16) -> Option<Result<u8, Trap>> {
        if !self.has_image(s) {
            return None;
        }
        let space = self.images.space(s);
        Some(space.load_byte(at))
    }

    /// Writes a byte of a slot's image.
    pub fn store(&mut self, s: Slot, at: u16, byte: u8) -> Option<Result<(), Trap>> {
        if !self.has_image(s) {
            return None;
        }
        let mut space = self.images.space(s);
        Some(space.store_byte(at, byte))
    }

    /// Four bytes of a slot's image from an address on, if all of them can be read.
    pub fn get(&mut self, s: Slot, at: u16) -> Option<Option<[u8; 4]>> {
        if !self.has_image(s) {
            return None;
        }
        let space = self.images.space(s);
        let mut bytes = [0o377; 4];
        if space.copy_in(at, &mut bytes) {
            Some(Some(bytes))
        } else {
            Some(None)
        }
    }

    /// Puts four bytes into a slot's image, from an address on, and says whether they are put.
    pub fn put(&mut self, s: Slot, at: u16, bytes: [u8; 4]) -> Option<bool> {
        if !self.has_image(s) {
            return None;
        }
        let mut space = self.images.space(s);
        Some(space.copy_out(at, &bytes))
    }

    /// The process in a slot does one instruction, and this is what it comes to.
    pub fn execute(&mut self, s: Slot) -> Option<Outcome> {
        if !self.has_image(s) {
            return None;
        }
        let fixed = self.images.fixed(s);
        let mut outcome = Outcome::Next;
        let is_next = self.images.execute(&fixed, &self.dispatch, &mut outcome);
        Some(if is_next { Outcome::Next } else { outcome })
    }

    /// Puts a byte to a place of core, or of the swap area, where there is such a place, and says whether it is put.
    pub fn deposit(&mut self, swap: bool, at: u32, byte: u8) -> Option<bool> {
        let all = if swap {
            self.images.swap().len()
        } else {
            self.images.core().len()
        };
        if at as usize >= all {
            return None;
        }
        Some(self.images.deposit(swap, at, byte))
    }

    /// The bytes of core.
    pub fn core(&self) -> &[u8] {
        self.images.core()
    }

    /// The bytes of the swap area.
    pub fn swap(&self) -> &[u8] {
        self.images.swap()
    }

    /// The byte at a place of core, or of the swap area.
    pub fn byte(&self, swap: bool, at: u32) -> Option<u8> {
        let bytes = if swap { self.swap() } else { self.core() };
        bytes.get(at as usize).copied()
    }
}
