//! What the table answers.

/// Forty texts are there, and there is no entry for another.
#[derive(Clone, Copy, Debug, PartialEq, Eq)]
pub struct Full;

/// What becomes of a text that a process has left: `xfree` of `text.c` in Lions' Commentary.
#[derive(Clone, Copy, Debug, PartialEq, Eq)]
pub enum Left {
    /// Others use it.
    Used,
    /// Nobody uses it, and it stays for the next who will, since its file is sticky: chmod(II), bit 01000.
    Kept,
    /// Nobody uses it, and its entry is free.
    Gone,
}
