//! A byte is put where it stands, in core or in the swap area, and so in the image of the process whose it is.
ghost use Rattle.std.specs.Prelude.{◌≡◌, ◌+◌, ◌<◌, true, false, if◌then◌else◌, slice_set};
ghost use Rattle.std.specs.List.{position};
ghost use Rattle.image_keep.specs.Memory.{place_at};
ghost use Rattle.image_keep.specs.ByteOf.{line_place, byte_from, byte_of, has_byte};
ghost use Rattle.image_keep.specs.Deposits.{memory_size, IsNobodys, IsPut, HasByte};

use crate::images::Images;
use crate::parts::row_of;
use crate::row::{Row, State};
use u_area::AREA_SIZE;
use v6_base::{Named, Place, Slot};

/// A byte of core, or of the swap area, in the line of both.
fn line_place(core: u16, swap: bool, at: u32) -> usize
    ensures { result ≡ line_place core swap at }
{
    if swap {
        64 * usize::from(core) + at as usize
    } else {
        at as usize
    }
}

/// Where in the line the data begin of an image at a place.
fn data_at(core: u16, place: Place) -> usize
    ensures { result ≡ place_at core place + 1024 }
{
    match place {
        Place::Core(click) => 64 * usize::from(click).saturating_sub(1) + AREA_SIZE,
        Place::Swap(block) => {
            64 * usize::from(core) + 512 * usize::from(block).saturating_sub(4000) + AREA_SIZE
        }
    }
}

/// Which byte stands at a place, where data of `long` bytes begin at `start`, and a stack of `stack` bytes stands behind them.
fn byte_from(start: usize, long: usize, stack: usize, at: usize) -> Named
    requires start { start < 1000000000 }
    requires long { long < 1000000000 }
    requires stack { stack < 1000000000 }
    ensures { result ≡ byte_from start long stack at }
{
    if at < start {
        return Named::Nothing;
    }
    if at < start + long {
        return Named::InData(at - start);
    }
    if at < start + long + stack {
        return Named::InStack(at - (start + long));
    }
    Named::Nothing
}

/// Which byte of the data or of the stack of a row's image stands at a place of the line.
fn byte_of(core: u16, row: Row, at: usize) -> Named
    ensures { result ≡ byte_of core row at }
{
    match row.state {
        State::Alive(place) => {
            let data = 64 * usize::from(row.data_size);
            let stack = 64 * usize::from(row.stack_size);
            byte_from(data_at(core, place), data, stack, at)
        }
        State::Nothing | State::Grave(_) => Named::Nothing,
    }
}

/// Whether it is one of this row's.
fn has_byte(core: u16, row: Row, at: usize) -> bool
    ensures { result ≡ has_byte core at row }
{
    match byte_of(core, row, at) {
        Named::Nothing => false,
        Named::InText(_) | Named::InData(_) | Named::InStack(_) => true,
    }
}

/// The slot of the process of whose data or stack a byte is.
fn owner(rows: &[Row], core: u16, at: usize) -> Option<usize>
    ensures { result ≡ position (has_byte core at) rows.now }
{
    rows.iter().position(|row| has_byte(core, *row, at))
}

impl Images {
    /// Puts a byte to a place of core, or with `swap` to one of the swap area, and so into the image that stands there: true
    /// exactly where it is a byte of the data or of the stack of a process. Else nothing changes. The u area, a text that is
    /// shared, and what is kept of a process that has ended take none. `at` counts bytes from the first of the clicks of core,
    /// or of the blocks of the swap area.
    pub fn deposit(&mut self, swap: bool, at: u32, b: u8) -> bool
        requires inside { at < memory_size self.old.kept swap }
        ensures put { result ≡ true → IsPut self.old.kept swap at b self.new.kept }
        ensures there { result ≡ true → HasByte self.new.kept swap at b }
        ensures core { result ≡ true → self.new.core ≡ (if swap then self.old.core else slice_set self.old.core at b) }
        ensures area { result ≡ true → self.new.swap ≡ (if swap then slice_set self.old.swap at b else self.old.swap) }
        ensures nobodys { result ≡ false → IsNobodys self.old.kept swap at }
        ensures same { result ≡ false → self.new ≡ self.old }
    {
        let place = line_place(self.core, swap, at);
        let s = match owner(&self.rows, self.core, place) {
            Some(s) => s,
            None => return false,
        };
        let byte = byte_of(self.core, row_of(&self.rows, s), place);
        let starts = self.starts(s as Slot);
        self.put_byte(s, &starts, byte, b);
        true
    }
}
