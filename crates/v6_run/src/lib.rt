//! The commands: `run` takes a disk image and a script, and writes what the terminal shows, the log of what the kernel
//! decides, and the disk that is left; `run8` does so with eight terminal lines; `memory` writes the core and the swap area
//! that a run leaves; `check` tells whether an image has a fault, and what it holds; `make` writes an image that is known to
//! the last byte; `demo` runs such an image; `audit` tells whether a log is lawful, by its lines alone.
#![tactic(auto)]

mod audit;
mod check;
mod command;
mod demo;
mod error;
mod files;
mod image;
mod line;
mod make;
mod memory;
mod outputs;
mod ports;
mod report;
mod run;
mod status;
mod words;

pub use command::v6;
pub use fs_check::ImageFault;
pub use script_text::ScriptFault;
pub use status::Status;
pub use v6_base::PanicKind;
