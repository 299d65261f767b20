//! What kinds of calls can be pending.
ghost use Rattle.std.specs.Prelude.{◌≡◌};
ghost use Rattle.u_area.specs.Pending.{is_on_files};

use crate::layout::{LINE_READ, LINE_WRITE, PIPE_READ, PIPE_WRITE};

/// Whether a pending call is one on files: read(II) and write(II), which go on at the byte where they waited.
#[inline]
pub fn is_on_files(pending: u8) -> bool
    ensures { result ≡ is_on_files pending }
{
    match pending {
        LINE_READ => true,
        LINE_WRITE => true,
        PIPE_READ => true,
        PIPE_WRITE => true,
        _ => false,
    }
}
