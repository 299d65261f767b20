//! An open file.

/// How a file was opened: `f_flag` of `file.h` in Lions' Commentary.
#[derive(Clone, Copy, Debug, PartialEq, Eq)]
pub struct FileKind {
    pub reading: bool,
    pub writing: bool,
    /// It is an end of a pipe.
    pub pipe: bool,
}

/// An open file: Lions' Commentary, `file.h`.
#[derive(Clone, Copy, Debug, PartialEq, Eq)]
pub struct OpenFile {
    /// The number of its inode.
    pub ino: u16,
    pub kind: FileKind,
    /// Where the next read or write begins, in bytes.
    pub offset: u32,
    /// How many numbers of processes name it.
    pub count: u16,
}

/// An open file that one number fewer names, with the count that is left.
#[derive(Clone, Copy, Debug, PartialEq, Eq)]
pub enum Closed {
    /// Other numbers name it still.
    Still(OpenFile),
    /// No number names it any more: its count is 0, and its entry is free.
    Last(OpenFile),
}
