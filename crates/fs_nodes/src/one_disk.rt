//! The file system of one disk, with its inodes in memory.
pub(crate) mod inodes;
pub(crate) mod look;
pub(crate) mod nodes;
pub(crate) mod numbers;
pub(crate) mod pieces;
pub(crate) mod put;
pub(crate) mod read_write;
pub(crate) mod setters;
pub(crate) mod table;
pub(crate) mod truncate;
pub(crate) mod update;
