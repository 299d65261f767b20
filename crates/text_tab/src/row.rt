//! What is known of a text.

/// A shared text: `text.h` in Lions' Commentary.
#[derive(Clone, Copy, Debug, PartialEq, Eq)]
pub struct TextRow {
    /// The inode of its file: `x_iptr`.
    pub ino: u16,
    /// Its size, in clicks of 64 bytes: `x_size`.
    pub clicks: u16,
    /// How many processes use it: `x_count`.
    pub users: u16,
    /// How many of these are in core: `x_ccount`.
    pub loaded: u16,
    /// The click at which it is in core: `x_caddr`. It counts only while there is a user in core.
    pub at: u16,
    /// The block of the swap area from which on it has its copy: `x_daddr`.
    pub block: u16,
}
