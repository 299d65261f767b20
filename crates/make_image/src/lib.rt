//! The disk image that `make` builds, known to the last byte for each number: a small tree of files in 4,000 blocks, with
//! the blocks that are left in the free list. And the script that `demo` takes such a disk through.
#![tactic(auto)]

mod bytes;
mod demo;
mod files;
mod free_list;
mod image;
mod tree;

pub use demo::demo_script;
pub use image::build;
