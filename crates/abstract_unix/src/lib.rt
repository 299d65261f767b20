//! The abstract Unix: what programs see of a system, what a turn, an event and a whole run come to, and the law of the log.
//! Definitions and laws of them; the code here is the table of system calls, and a few types in which they speak.
#![tactic(auto)]

mod asked;
mod calls;
mod ending;
mod ends;
mod turned;

pub use asked::Asked;
pub use calls::{
    FileCall, ProcessCall, Sysent, SystemCall, do_file_call, do_process_call, sysent_of,
};
pub use ending::Ending;
pub use ends::Ends;
pub use turned::Turned;
