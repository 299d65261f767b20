//! A program that exec(II) has found.
use crate::arguments::Arguments;
use aout_head::Plan;

/// A file that can be executed: its inode, to which the call refers, the sizes of its parts in bytes, the clicks of its text, and
/// its arguments.
#[derive(Drop)]
pub struct Program {
    pub(crate) ino: u16,
    pub(crate) plan: Plan,
    pub(crate) text_clicks: u16,
    pub(crate) arguments: Arguments,
}
