//! What a header comes to: the parts of a program, or why it is none.
use thiserror::Error;

/// The sizes of a program's parts, in bytes: a.out(V). In its file they stand one after the other behind the header of
/// sixteen bytes, the text first; the bss doesn't stand there.
#[derive(Clone, Copy, Debug, PartialEq, Eq)]
pub struct Plan {
    /// The text, which is read only: 0 where the program has none apart from its data.
    pub text: u16,
    /// The data that the file has. Where the text isn't apart, text and data together, at most 131,070 bytes.
    pub init: u32,
    /// The zeros after these data.
    pub bss: u16,
}

/// Why a file can't be executed, by its magic number.
#[derive(Clone, Copy, Debug, PartialEq, Eq, Error)]
pub enum ExecFault {
    /// Its magic number is none of 0407, 0410 and 0411: ENOEXEC of intro(II).
    #[error("no program")]
    NotExecutable,
    /// Its magic number is 0411. Instructions and data have one address space on the PDP-11/40, so `estabur` of Lions'
    /// Commentary, `main.c`, refuses it with ENOMEM.
    #[error("separate instructions and data")]
    Separate,
}
