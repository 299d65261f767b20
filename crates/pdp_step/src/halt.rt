//! Why a row, or an instruction, isn't done.
ghost use Rattle.std.specs.Prelude.{◌≡◌, IsErr};
ghost use Rattle.pdp_step.specs.After.{refused};
ghost use Rattle.pdp_step.specs.Parts.{IsMissed, IsTrapped, halted_by};

use crate::outcome::Demand;
use v6_base::Trap;

/// Why a row isn't done.
#[derive(Clone, Copy, Debug, PartialEq, Eq)]
pub enum Halt {
    /// What it wants isn't at hand.
    Missed,
    /// It comes to a trap.
    Trapped(Trap),
}

impl From<Trap> for Halt {
    ghost use Rattle.pdp_step.specs.declared.halt.Halt.{Halt};

    ghost from_gives = { λ trap halt. halt ≡ Halt.Trapped trap };

    #[inline(always)]
    fn from(trap: Trap) -> Halt {
        Halt::Trapped(trap)
    }
}

/// Why an instruction isn't done.
#[derive(Clone, Copy)]
pub enum Refusal {
    /// Its row isn't done.
    Halted(Halt),
    /// It asks something of the kernel, with PC after the word.
    Demanded(Demand),
}

/// The end of a row that comes to its one write.
#[inline(always)]
pub fn halted(answer: Result<(), Trap>) -> Result<(), Halt>
    ensures is { result ≡ halted_by answer }
    ensures sure { IsMissed result → ⊥ }
    ensures trapped { IsTrapped result → IsErr answer }
{
    match answer {
        Ok(()) => Ok(()),
        Err(trap) => Err(Halt::Trapped(trap)),
    }
}

/// The end of an instruction whose row has ended.
#[inline(always)]
pub fn refuse(answer: Result<(), Halt>) -> Result<(), Refusal>
    ensures { result ≡ refused answer }
{
    match answer {
        Ok(()) => Ok(()),
        Err(halt) => Err(Refusal::Halted(halt)),
    }
}
