//! What a header says.
ghost use Rattle.std.specs.Prelude.{◌≡◌, ◌<◌, ◌≤◌, IfOk, MatchResult};
ghost use Rattle.aout_head.specs.Header.{word, header_of, plan_of, IsPlan, IsRefusal};

use crate::parts::{ExecFault, Plan};
use byteorder::{ByteOrder, LittleEndian};

/// The magic number of a program whose text isn't write-protected: its data begin right after its text.
const PLAIN: u16 = 0o407;

/// The magic number of a program whose text is write-protected and shared by all that run it.
const SHARED: u16 = 0o410;

/// The magic number of a program whose text and data have address spaces of their own.
const SEPARATE: u16 = 0o411;

/// Word `n` of a header, from 0 on.
fn word(head: &[u8; 16], n: usize) -> u16
    requires { n < 8 }
    ensures { result ≡ word head.now n }
{
    LittleEndian::read_u16(&head[2 * n..2 * n + 2])
}

/// What the header of a program's file says of its parts: a.out(V), and `exec` in Lions' Commentary, `sys1.c`. Unlike
/// there the sum of text and data doesn't wrap.
///
/// # Errors
///
/// Exactly by the magic number: `Separate` for 0411, and `NotExecutable` for each one but 0407, 0410 and 0411.
pub fn plan(head: &[u8; 16]) -> Result<Plan, ExecFault>
    ensures plan { result ≡ plan_of (header_of head.now) }
    ensures words { MatchResult result (IsPlan (header_of head.now)) (IsRefusal (header_of head.now)) }
    ensures most { IfOk result (λ p. p.init ≤ 131070) }
{
    let (magic, text, data, bss) = (word(head, 0), word(head, 1), word(head, 2), word(head, 3));
    match magic {
        PLAIN => Ok(Plan {
            text: 0,
            init: u32::from(text) + u32::from(data),
            bss,
        }),
        SHARED => Ok(Plan {
            text,
            init: u32::from(data),
            bss,
        }),
        SEPARATE => Err(ExecFault::Separate),
        _ => Err(ExecFault::NotExecutable),
    }
}
