//! One move of process 0: somebody comes in, somebody goes out, or it sleeps. `sched` in Lions' Commentary, `slp.c`.
ghost use Rattle.std.specs.Prelude.{◌≡◌, ◌<◌, ◌∷◌, [], Ok, None, Some};
ghost use Rattle.v6_base.specs.Trace.{Took, Log};
ghost use Rattle.pick_rules.specs.Table.{IsTable, row_at, with_row};
ghost use Rattle.pick_rules.specs.Swapper.{Out, Waits, candidate, loaded_waiter, makes_room, swap_move};
ghost use Rattle.image_keep.specs.Kept.{place_of};
ghost use Rattle.swap_sched.specs.Match.{Matches, board_of};
ghost use Rattle.swap_sched.specs.inside.Does.{MakesMove};

use crate::candidates::{candidate, who_goes};
use crate::rows::{put, put_out};
use image_keep::Images;
use pick_rules::Table;
use v6_base::{Chan, Entry, PanicKind, Slot, Trace};

/// The priority of the swapper: `PSWP` in Lions' Commentary, `param.h`.
const PSWP: i8 = -100;

/// The swapper sleeps.
fn sleep<T: Trace>(table: &mut Table, images: &Images, chan: Chan, trace: &mut T)
    requires matches { Matches table.old images.now.kept }
    requires comes { swap_move (board_of table.old images.now.kept) ≡ Waits chan }
    ensures does { MakesMove table.old images.now.kept (T.taken trace.old) (Ok tt) table.new images.now.kept
        (T.taken trace.new) }
    ensures asleep { table.new.running ≡ None }
    ensures frame { T.leads_to trace.old trace.new }
{
    trace.entry(Entry::Sleep {
        slot: 0,
        pri: PSWP,
        chan,
    });
    table.sleep(0, PSWP, chan);
}

/// An image goes out.
///
/// # Errors
///
/// `Swap`: the swap area has no room for it. Nothing but the log has changed then.
fn go_out<T: Trace>(
    table: &mut Table,
    images: &mut Images,
    s: Slot,
    trace: &mut T,
) -> Result<(), PanicKind>
    requires matches { Matches table.old images.old.kept }
    requires slot { s < 50 }
    requires comes { swap_move (board_of table.old images.old.kept) ≡ Out s }
    ensures does { MakesMove table.old images.old.kept (T.taken trace.old) result table.new images.new.kept
        (T.taken trace.new) }
    ensures frame { T.leads_to trace.old trace.new }
{
    let _ = images.place(s);
    match images.swap_out(s) {
        Ok(block) => {
            put_out(table, s, block);
            trace.entry(Entry::SwapOut { slot: s, block });
            Ok(())
        }
        Err(_) => {
            trace.entry(Entry::Panic(PanicKind::Swap));
            Err(PanicKind::Swap)
        }
    }
}

/// Somebody goes out for a slot that finds no room in core, or the swapper sleeps.
///
/// # Errors
///
/// As `go_out`.
fn make_room<T: Trace>(
    table: &mut Table,
    images: &mut Images,
    s: Slot,
    trace: &mut T,
) -> Result<(), PanicKind>
    requires matches { Matches table.old images.old.kept }
    requires slot { s < 50 }
    requires comes { swap_move (board_of table.old images.old.kept) ≡ makes_room table.old s (loaded_waiter table.old) }
    ensures does { MakesMove table.old images.old.kept (T.taken trace.old) result table.new images.new.kept
        (T.taken trace.new) }
    ensures frame { T.leads_to trace.old trace.new }
{
    match who_goes(table, s) {
        Some(r) => go_out(table, images, r, trace),
        None => {
            sleep(table, images, Chan::RunIn, trace);
            Ok(())
        }
    }
}

/// The row of a slot whose image has come in, and the line of the log: the piece begins at a click, with the text, where
/// that came in too.
fn enter<T: Trace>(table: &mut Table, images: &Images, s: Slot, at: u16, trace: &mut T)
    requires table { IsTable table.old }
    requires slot { s < 50 }
    ensures table { table.new ≡ with_row table.old s (record (row_at table.old s) {
      place = place_of images.now.kept s;
      time = 0;
    }) }
    ensures good { IsTable table.new }
    ensures items { Took (T.taken trace.old) (Log (Entry.SwapIn s at) ∷ []) (T.taken trace.new) }
    ensures frame { T.leads_to trace.old trace.new }
{
    put(table, s, images.place(s));
    trace.entry(Entry::SwapIn { slot: s, at });
}

/// The slot that has been out for longest comes in; where core has no room for it, somebody goes out.
///
/// # Errors
///
/// As `go_out`.
fn serve<T: Trace>(
    table: &mut Table,
    images: &mut Images,
    s: Slot,
    trace: &mut T,
) -> Result<(), PanicKind>
    requires matches { Matches table.old images.old.kept }
    requires slot { s < 50 }
    requires next { candidate table.old ≡ Some s }
    ensures does { MakesMove table.old images.old.kept (T.taken trace.old) result table.new images.new.kept
        (T.taken trace.new) }
    ensures frame { T.leads_to trace.old trace.new }
{
    let _ = images.place(s);
    match images.swap_in(s) {
        Ok(at) => {
            enter(table, images, s, at, trace);
            Ok(())
        }
        Err(_) => make_room(table, images, s, trace),
    }
}

/// Makes the next move.
///
/// # Errors
///
/// As `go_out`.
pub(crate) fn make_move<T: Trace>(
    table: &mut Table,
    images: &mut Images,
    trace: &mut T,
) -> Result<(), PanicKind>
    requires { Matches table.old images.old.kept }
    ensures does { MakesMove table.old images.old.kept (T.taken trace.old) result table.new images.new.kept
        (T.taken trace.new) }
    ensures still { candidate table.old ≡ None → images.new ≡ images.old }
    ensures asleep { candidate table.old ≡ None → table.new.running ≡ None }
    ensures frame { T.leads_to trace.old trace.new }
{
    match candidate(table) {
        Some(s) => serve(table, images, s, trace),
        None => {
            sleep(table, images, Chan::RunOut, trace);
            Ok(())
        }
    }
}
