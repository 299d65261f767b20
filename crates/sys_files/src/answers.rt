//! What calls answer: INTRO(II) of the manual.
ghost use Rattle.std.specs.Prelude.{◌≡◌, slice_index};
ghost use Rattle.v6_base.specs.declared.answer.Answer.TheVariants.{Ret};
ghost use Rattle.sys_files.specs.Handed.{Handed};
ghost use Rattle.sys_files.specs.Entering.{did_of};

use u_area::UArea;
use v6_base::{Answer, Errno};

/// The call is done, and the registers stay.
pub(crate) fn done(u: &UArea) -> Answer
    ensures { result ≡ Ret (slice_index u.now.r 0) (slice_index u.now.r 1) }
{
    Answer::Ret {
        r0: u.r[0],
        r1: u.r[1],
    }
}

/// The answer of a call that is done, which leaves the registers as they are, or refused.
pub(crate) fn answer_of(u: &UArea, outcome: Result<(), Errno>) -> Answer
    ensures { (h : Handed) → h.u ≡ u.now → result ≡ (did_of h outcome).answer }
{
    match outcome {
        Ok(()) => done(u),
        Err(e) => Answer::Fail(e),
    }
}
