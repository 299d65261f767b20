//! What a move of process 0 makes of the row of a slot: `sched` and `xswap` in Lions' Commentary, `slp.c` and `text.c`.
ghost use Rattle.std.specs.Prelude.{◌≡◌, ◌<◌, Some};
ghost use Rattle.pick_rules.specs.Table.{IsTable, row_at, with_row};
ghost use Rattle.pick_rules.specs.Sleepers.{runout_told};

use pick_rules::Table;
use v6_base::{Place, Slot};

/// The image of a slot stands at another place, and its time there begins.
pub(crate) fn put(table: &mut Table, s: Slot, place: Option<Place>)
    requires table { IsTable table.old }
    requires slot { s < 50 }
    ensures table { table.new ≡ with_row table.old s (record (row_at table.old s) { place = place; time = 0 }) }
    ensures good { IsTable table.new }
{
    let row = &mut table.rows[s as usize];
    row.place = place;
    row.time = 0;
}

/// The image of a slot has gone out, to a block. The swapper is told, where it waits for somebody out of core.
pub(crate) fn put_out(table: &mut Table, s: Slot, block: u16)
    requires table { IsTable table.old }
    requires slot { s < 50 }
    ensures table { table.new ≡ runout_told (with_row table.old s (record (row_at table.old s) {
      place = Some (Place.Swap block);
      time = 0;
    })) }
    ensures good { IsTable table.new }
{
    put(table, s, Some(Place::Swap(block)));
    table.tell_swapper();
}
