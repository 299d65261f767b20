//! Rows of disks: their bytes, their faults, their blocks, inodes, files and names. What a row must come to is worked by hand
//! from its left side and the page of `docs/manual` that its module names, or is given by another program that follows these
//! pages; none is an answer that this program gave.
mod area;
mod blocks;
mod buffers;
mod cache;
mod calls;
mod codec;
mod disks;
mod entries;
pub(crate) mod files;
pub(crate) mod fixtures;
mod late;
mod mixed;
mod mounts;
mod name_limits;
mod names;
mod names_disk;
mod nodes;
mod numbers;
pub(crate) mod opened;
mod permission;
mod pieces;
mod pipes;
mod shared;
mod touch;
mod truncate;
mod two_disks;
mod volume;
