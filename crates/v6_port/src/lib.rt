//! The outside of the kernel: the files that a command reads and writes, behind one trait.
//!
//! A [`Host`] has four ports to read from and twelve to write to. Whatever runs over a host is proved
//! against what the trait says of it, and so holds over real files and over files in memory alike.
#![tactic(auto)]

mod buffered_writer;
mod counts;
mod file_host;
mod files;
mod host;
mod kept;
mod mem_host;
mod rooms;

pub use file_host::FileHost;
pub use host::{Failed, Host, InPort, OutPort};
pub use mem_host::MemHost;
