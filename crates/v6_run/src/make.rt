//! The command `make`.
ghost use Rattle.std.specs.Prelude.{◌≡◌, false};
ghost use Rattle.v6_port.specs.Outside.{Out};
ghost use Rattle.v6_port.specs.declared.host.OutPort.TheVariants.{Final};
ghost use Rattle.v6_run.specs.Words.{Make};
ghost use Rattle.v6_run.specs.Errors.{end_of, make_status};
ghost use Rattle.v6_run.specs.Answers.{Answers};

use crate::files::write_file;
use make_image::build;
use std::alloc::Global;
use v6_port::{Host, OutPort};

/// Why a disk was not made.
#[derive(Clone, Copy)]
pub(crate) enum MakeError {
    /// There was no memory.
    NoMemory,
    /// Its file could not be opened, written or finished.
    Fault,
}

/// The command `make`: writes the disk image of this number as the file of this name.
#[inline(never)]
#[tactic(auto, using(crate::proofs::MakeLemmas::make_stopped))]
pub(crate) fn make<H: Host>(
    alloc: Global,
    number: u32,
    name: &str,
    host: &mut H,
) -> Result<(), MakeError>
    requires { ((H.outside host.old).port (Out Final)).is_open ≡ false }
    ensures { Answers (Make number name.now) (end_of make_status result) (H.outside host.old) (H.outside host.new) }
{
    let Ok(image) = build(alloc, number) else {
        return Err(MakeError::NoMemory);
    };
    if write_file(host, OutPort::Final, name, &image).is_err() {
        return Err(MakeError::Fault);
    }
    Ok(())
}
