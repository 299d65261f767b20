//! The command `check`.
ghost use Rattle.std.specs.Prelude.{◌≡◌, Some, IfOk};
ghost use Rattle.v6_port.specs.Outside.{Tells};
ghost use Rattle.v6_run.specs.Words.{Check};
ghost use Rattle.v6_run.specs.Report.{ok_line};
ghost use Rattle.v6_run.specs.Headline.{done_line};
ghost use Rattle.v6_run.specs.Errors.{end_of, image_status};
ghost use Rattle.v6_run.specs.Answers.{Answers};

use crate::image::{ImageError, read_image};
use fs_check::{Tally, tally};
use std::alloc::Global;
use v6_port::Host;

/// The command `check`: what the image of this name holds.
#[inline(never)]
pub(crate) fn check<H: Host>(alloc: Global, name: &str, host: &mut H) -> Result<Tally, ImageError>
    ensures answers { Answers (Check name.now) (end_of image_status result) (H.outside host.old) (H.outside host.new) }
    ensures line { IfOk result (λ tally. Tells (H.outside host.old)
        → done_line (Some (Check name.now)) (H.outside host.old).fixed ≡ ok_line tally.nodes tally.free) }
{
    let image = read_image(alloc, name, host)?;
    Ok(tally(&image))
}
