//! The kernel: the abstract Unix, taking one event a call.
#![tactic(auto)]

mod asked;
mod boot;
mod delivery;
mod files;
mod init;
mod kernel;
mod machine;
mod onfiles;
mod passing;
mod process;
mod readers;
mod settling;
mod slots;
mod world;

pub use abstract_unix::{Ends, Turned};
pub use boot::{Boot2Fault, BootFault, SecondFault, second_fault};
pub use kernel::Kernel;
