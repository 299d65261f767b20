//! The lines of the log: docs/manual/log.md, line by line.
mod entries;
mod others;
mod outside;
