//! What a call asks for.

/// What a call asks for: its number and its arguments, and whether they stand after the word of another call. Call 0 is
/// indirect: the word after it is the address of that other call's word. indir(II) of the manual.
#[derive(Clone, Copy, Debug, PartialEq, Eq)]
pub struct Asked {
    pub number: u8,
    pub args: [u16; 4],
    pub is_indirect: bool,
}
