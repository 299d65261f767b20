//! A script as the list of its events.
ghost use Rattle.std.specs.Prelude.{◌≡◌, ◌≤◌, Ok, IfOk, IfErr, sum_by};
ghost use Rattle.script_text.specs.Script.{script_of, slots_of, AreRates, Refuses};

use crate::command::{command_of_line, push, slots_asked};
use crate::lines::first_line;
use std::alloc::Global;
use thiserror::Error;

/// The most bytes of a script.
pub const MAX_BYTES: usize = 1_048_576;

/// The most bytes of a line, without its line feed and a carriage return before that.
pub(crate) const MAX_LINE: usize = 300;

/// The most slots that one script may ask for.
pub(crate) const MAX_SLOTS: u32 = 200_000_000;

/// What a script asks for.
#[derive(Clone, Copy, Debug, PartialEq, Eq)]
pub enum Event {
    /// From now on a tick comes after each so many slots, counted anew. 0 is none.
    Clock(u32),
    /// So many slots.
    Run(u32),
    /// One tick of the clock.
    Tick,
    /// A byte is typed.
    Byte(u8),
    /// The switches of the console are set.
    Switch(u16),
    /// From now on a transfer from the disk takes so many slots. 0 is none.
    Disk(u32),
    /// From now on each line sends a byte after every so manyth slot, counted anew. 0 is none: bytes don't wait.
    Pace(u32),
    /// From now on what is typed is typed on the terminal line of this number, below 8. At first that is line 0.
    Line(u8),
    /// The terminal line of this number, below 8, hangs up.
    Hangup(u8),
}

/// Why a script isn't read.
#[derive(Clone, Copy, Debug, PartialEq, Eq, Error)]
pub enum ScriptFault {
    /// It has more than 1,048,576 bytes.
    #[error("too long")]
    TooLong,
    /// The line of this number, from 1, is the first that is no line of a script, or has more than 300 bytes.
    #[error("line {0}")]
    BadLine(u32),
    /// The line of this number, from 1, brings the slots above 200,000,000, and no line before it is bad.
    #[error("too many slots at line {0}")]
    TooManySlots(u32),
    /// There was no memory.
    #[error("no memory")]
    NoMemory,
}

/// A script: its events in order.
#[derive(Drop)]
pub struct Script {
    pub events: Vec<Event>,
}

/// Reads a script.
///
/// # Errors
///
/// `TooLong`: it has more than 1,048,576 bytes. Else the first line that is bad or asks for too many slots: `BadLine`,
/// `TooManySlots`. `NoMemory`: there was no memory for its events.
pub fn read(alloc: Global, bytes: &[u8]) -> Result<Script, ScriptFault>
    ensures events { IfOk result (λ script. script_of bytes.now ≡ Ok script.events.items) }
    ensures slots { IfOk result (λ script. sum_by slots_of script.events.items ≤ MAX_SLOTS) }
    ensures rates { IfOk result (λ script. AreRates script.events.items) }
    ensures refused { IfErr result (Refuses bytes.now) }
{
    if bytes.len() > MAX_BYTES {
        return Err(ScriptFault::TooLong);
    }
    let mut events = Vec::new(alloc);
    let (mut line, mut slots, mut rest) = (0, 0, bytes);
    'lines: while !rest.is_empty() {
        let first = first_line(rest);
        line += 1;
        rest = first.rest;
        let Some(command) = command_of_line(first.line) else {
            return Err(ScriptFault::BadLine(line));
        };
        let more = slots_asked(&command);
        if more > MAX_SLOTS - slots {
            return Err(ScriptFault::TooManySlots(line));
        }
        slots += more;
        if push(&mut events, &command).is_err() {
            return Err(ScriptFault::NoMemory);
        }
    }
    Ok(Script { events })
}
