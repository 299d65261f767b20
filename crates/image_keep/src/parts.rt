//! Rows, and where in core and in the swap area they stand.
ghost use Rattle.std.specs.Prelude.{◌≡◌, ◌+◌, ◌*◌, ◌<◌, ◌≤◌, ℕ, ◌||◌, true, false, length, slice_set};
ghost use Rattle.map_fit.specs.Free.{is_free};
ghost use Rattle.image_keep.specs.Maps.{InsideBy, core_units, swap_units};
ghost use Rattle.image_keep.specs.Memory.{swap_at, clicks_in, row_at, at_row, IsIn, place_at, is_alive, place_by, grave_row, nothing_row};
ghost use Rattle.image_keep.specs.Places.{blocks};

use crate::row::{Row, State};
use map_fit::Holes;
use v6_base::Place;

/// The click of the line at which a block of the swap area begins.
#[inline(always)]
pub(crate) fn block_click(core: u16, block: u16) -> usize
    requires { 4000 ≤ block }
    ensures { 64 * result ≡ swap_at core block }
{
    usize::from(core) + 8 * (usize::from(block) - 4000)
}

/// The blocks that so many clicks take.
pub(crate) fn blocks_of(clicks: u16) -> u16
    requires { clicks ≤ 60000 }
    ensures { result ≡ blocks clicks }
{
    (clicks + 7) / 8
}

/// The clicks of a row's image.
pub(crate) fn clicks_of(row: Row) -> u16
    requires { row.data_size + row.stack_size ≤ 2000 }
    ensures { result ≡ clicks_in row }
{
    16 + row.data_size + row.stack_size
}

/// The row of a slot.
#[inline(always)]
pub(crate) fn row_of(rows: &[Row], s: usize) -> Row
    requires { s < length rows.now }
    ensures { result ≡ row_at rows.now s }
{
    rows[s]
}

/// Gives a slot another row.
pub(crate) fn set_row(rows: &mut [Row], s: usize, row: Row)
    requires { s < length rows.old }
    ensures rows { rows.new ≡ slice_set rows.old s row }
    ensures long { length rows.new ≡ length rows.old }
{
    rows[s] = row;
}

/// Gives the image of a row another place.
pub(crate) fn set_place(rows: &mut [Row], s: usize, place: Place)
    requires { s < length rows.old }
    ensures rows { rows.new ≡ slice_set rows.old s (at_row (row_at rows.old s) place) }
    ensures long { length rows.new ≡ length rows.old }
{
    rows[s].state = State::Alive(place);
}

/// Where a row's image stands, or what is kept of a process that has ended.
pub(crate) fn place_in(row: Row) -> Option<Place>
    ensures { result ≡ place_by row.state }
{
    match row.state {
        State::Nothing => None,
        State::Alive(place) => Some(place),
        State::Grave(block) => Some(Place::Swap(block)),
    }
}

/// The place of a row's image.
#[inline(always)]
pub(crate) fn place_of(row: Row) -> Place
    requires { is_alive row.state ≡ true }
    ensures { row.state ≡ State.Alive result }
{
    match row.state {
        State::Alive(place) => place,
        _ => unreachable!(),
    }
}

/// The click of the line at which a place is.
#[inline(always)]
pub(crate) fn place_click(core: u16, place: Place) -> usize
    requires { (n : ℕ) × IsIn core place n }
    ensures { 64 * result ≡ place_at core place }
{
    match place {
        Place::Core(click) => usize::from(click) - 1,
        Place::Swap(block) => block_click(core, block),
    }
}

/// Gives back what a row has: its clicks of core, or its blocks of the swap area.
#[tactic(auto, using(crate::proofs::Ended::or_false))]
pub(crate) fn give_back(core_map: &mut Holes, swap_map: &mut Holes, row: Row)
    requires sizes { row.data_size + row.stack_size ≤ 1024 }
    requires inside { (core : ℕ) × (core ≤ 3968) × InsideBy core row.state (clicks_in row) }
    requires core_taken { (x : ℕ) → core_units row.state (clicks_in row) x ≡ true → is_free core_map.old x ≡ false }
    requires swap_taken { (x : ℕ) → swap_units row.state (clicks_in row) x ≡ true → is_free swap_map.old x ≡ false }
    requires core_room { length core_map.old < 100 }
    requires swap_room { length swap_map.old < 100 }
    ensures core { (x : ℕ) → is_free core_map.new x ≡ (is_free core_map.old x || core_units row.state (clicks_in row) x) }
    ensures swap { (x : ℕ) → is_free swap_map.new x ≡ (is_free swap_map.old x || swap_units row.state (clicks_in row) x) }
{
    match row.state {
        State::Nothing => {}
        State::Alive(Place::Core(click)) => core_map.give(click, clicks_of(row)),
        State::Alive(Place::Swap(block)) => swap_map.give(block, blocks_of(clicks_of(row))),
        State::Grave(block) => swap_map.give(block, 1),
    }
}

/// The row of a process that has ended.
pub(crate) fn grave_row(row: Row, block: u16) -> Row
    ensures { result ≡ grave_row row block }
{
    Row {
        state: State::Grave(block),
        ..row
    }
}

/// The row of a slot that has nothing.
pub(crate) fn nothing_row(row: Row) -> Row
    ensures { result ≡ nothing_row row }
{
    Row {
        state: State::Nothing,
        ..row
    }
}

/// The block in which a row keeps half of a u area.
pub(crate) fn grave_block(row: Row) -> u16
    requires { (b : ℕ) × (row.state ≡ State.Grave b) }
    ensures { row.state ≡ State.Grave result }
{
    match row.state {
        State::Grave(block) => block,
        _ => unreachable!(),
    }
}

/// The block at which a row's image begins.
pub(crate) fn block_of(row: Row) -> u16
    requires { (b : ℕ) × (row.state ≡ State.Alive (Place.Swap b)) }
    ensures { row.state ≡ State.Alive (Place.Swap result) }
{
    match row.state {
        State::Alive(Place::Swap(block)) => block,
        _ => unreachable!(),
    }
}

/// The row of a slot with the same image at another place.
pub(crate) fn at_row(row: Row, place: Place) -> Row
    ensures { result ≡ at_row row place }
{
    Row {
        state: State::Alive(place),
        ..row
    }
}
