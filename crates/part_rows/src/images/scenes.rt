//! Scenes: what is asked of the slots, step by step.

use crate::images::table::Table;
use crate::tell;
use pdp_step::Outcome;
use std::alloc::{AllocError, Global};
use std::process::Abort;
use v6_base::{Place, Slot, Trap};

/// A step of a scene. Where a place or a block is `None`, there must be no room.
#[derive(Clone, Copy)]
pub enum Step {
    /// A slot gets an image with so many clicks of data and of stack, at this place.
    Makes(Slot, u16, u16, Option<Place>),
    /// A slot's image gets so many clicks of data and of stack, and stands at this place then.
    Resizes(Slot, u16, u16, Option<Place>),
    /// A slot's image is copied to another slot, at this place.
    Forks(Slot, Slot, Option<Place>),
    /// A slot's image goes.
    Bares(Slot),
    /// A slot's process ends, and this block is kept for it.
    Ends(Slot, Option<u16>),
    /// What is kept of a process that has ended goes.
    Reaps(Slot),
    /// This is where a slot's image stands, or what is kept of its process.
    Stands(Slot, Option<Place>),
    /// So many clicks of core are free in one piece, or not.
    HasRoom(u16, bool),
    /// A byte is written in a slot's image.
    Stores(Slot, u16, u8),
    /// A byte is read in a slot's image, or why it can't be.
    Loads(Slot, u16, Result<u8, Trap>),
    /// Four bytes are got from an address of a slot's image on, or not.
    Gets(Slot, u16, Option<[u8; 4]>),
    /// Four bytes, and whether they are put from an address of a slot's image on.
    Puts(Slot, u16, [u8; 4], bool),
    /// A slot's process does one instruction, and this is what it comes to.
    Executes(Slot, Outcome),
    /// A byte is put to a place of core, or with `true` of the swap area, or not.
    Deposits(bool, u32, u8, bool),
    /// The byte at such a place.
    Has(bool, u32, u8),
}

/// A scene: the clicks of core, from 64 to 3968, and the steps.
#[derive(Clone, Copy)]
pub struct Scene {
    pub name: &'static str,
    pub core: u16,
    pub steps: &'static [Step],
}

fn places(table: &mut Table, step: Step) -> bool {
    match step {
        Step::Makes(s, d, stack, place) => {
            table
                .make(s, d, stack)
                .is_some_and(|made| made.ok() == place)
        }
        Step::Resizes(s, d, stack, place) => {
            table
                .resize(s, d, stack)
                .is_some_and(|resized| resized.ok() == place)
        }
        Step::Forks(from, to, place) => table.fork(from, to).is_some_and(|made| made.ok() == place),
        Step::Ends(s, block) => table.end(s).is_some_and(|ended| ended.ok() == block),
        Step::Bares(s) => table.bare(s).is_some(),
        Step::Reaps(s) => table.reap(s).is_some(),
        _ => false,
    }
}

fn holds(table: &mut Table, step: Step) -> bool {
    match step {
        Step::Stands(s, place) => table.place(s) == place,
        Step::HasRoom(clicks, free) => table.has_room(clicks) == free,
        Step::Stores(s, at, byte) => table.store(s, at, byte) == Some(Ok(())),
        Step::Loads(s, at, byte) => table.load(s, at) == Some(byte),
        Step::Gets(s, at, bytes) => table.get(s, at) == Some(bytes),
        Step::Puts(s, at, bytes, done) => table.put(s, at, bytes) == Some(done),
        Step::Executes(s, outcome) => table.execute(s) == Some(outcome),
        Step::Deposits(swap, at, byte, put) => table.deposit(swap, at, byte) == Some(put),
        Step::Has(swap, at, byte) => table.byte(swap, at) == Some(byte),
        _ => places(table, step),
    }
}

/// The number of the first step that does not hold, from 0 on.
pub fn first_of(table: &mut Table, steps: &[Step]) -> Option<usize> {
    for (k, step) in steps.iter().enumerate() {
        if !holds(table, *step) {
            return Some(k);
        }
    }
    None
}

/// The number of the first step of a scene that does not hold.
fn first_failure(alloc: Global, scene: &Scene) -> Result<Option<usize>, AllocError> {
    if scene.core < 64 || scene.core > 3968 {
        return Ok(Some(usize::MAX));
    }
    let mut table = Table::new(alloc, scene.core)?;
    Ok(first_of(&mut table, scene.steps))
}

/// Tells the first step of these scenes that does not hold.
pub fn judge(rt: &impl Abort, alloc: Global, scenes: &[Scene]) {
    for scene in scenes {
        let found = first_failure(alloc, scene).expect(rt, "memory");
        tell::step_of(rt, scene.name, found);
    }
}
