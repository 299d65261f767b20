//! A pass of process 0: `sched` in Lions' Commentary, `slp.c`.
ghost use Rattle.std.specs.Prelude.{◌≡◌, Some, None, is_none, IfOk};
ghost use Rattle.v6_base.specs.Trace.{entries_of};
ghost use Rattle.pick_rules.specs.Swapper.{candidate};
ghost use Rattle.swap_sched.specs.Lines.{FitEach};
ghost use Rattle.swap_sched.specs.Match.{Matches, board_of};
ghost use Rattle.swap_sched.specs.Moved.{HasMoved, SameImages, answered};
ghost use Rattle.swap_sched.specs.Pass as passes;

use crate::moves::make_move;
use image_keep::Images;
use pick_rules::Table;
use v6_base::{PanicKind, Slot, Trace};

/// A pass makes no more moves than this.
const MOST_MOVES: u8 = 150;

/// Whether nobody runs: the swapper sleeps.
fn is_asleep(running: Option<Slot>) -> bool
    ensures { result ≡ is_none running }
{
    running.is_none()
}

/// The pass of the swapper, until it sleeps: brings in who has waited out of core for longest, and takes out others to make
/// room. Each move is a line of the log. Lions' Commentary, `sched` in `slp.c`.
///
/// # Errors
///
/// `Swap`: the swap area has no room for an image that is to go out. The log ends with the panic's line, and table and images
/// are as the moves before it have left them.
pub fn pass<T: Trace>(
    table: &mut Table,
    images: &mut Images,
    trace: &mut T,
) -> Result<(), PanicKind>
    requires matches { Matches table.old images.old.kept }
    requires runs { table.old.running ≡ Some 0 }
    ensures does { HasMoved table.old images.old.kept (T.taken trace.old) (passes.pass (board_of table.old images.old.kept))
        table.new images.new.kept (T.taken trace.new) }
    ensures answer { result ≡ answered (passes.pass (board_of table.old images.old.kept)).stop }
    ensures fits { FitEach (board_of table.old images.old.kept)
        (entries_of (passes.pass (board_of table.old images.old.kept)).items) }
    ensures same { SameImages images.old.kept images.new.kept }
    ensures still { candidate table.old ≡ None → images.new ≡ images.old }
    ensures sleeps { IfOk result (λ _. table.new.running ≡ None) }
    ensures frame { T.leads_to trace.old trace.new }
{
    for n in 0..MOST_MOVES {
        if is_asleep(table.running) {
            return Ok(());
        }
        make_move(table, images, trace)?;
    }
    Ok(())
}
