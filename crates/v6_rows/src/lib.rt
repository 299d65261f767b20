//! Rows of whole commands and runs, which judge the definitions. A function that is proved equal to its definition is
//! as right as the definition: what a proof can't see is a rule of the manual that was misread in both. So each rule
//! has rows that its likely misreadings fail: here, in the files that `run_rows` runs, and in the crates of rows over the
//! crates below.
//!
//! There is no code here but tests, over the public calls of the crates below. A row is data, and the one question
//! about it is whether it holds. What a row must come to is worked by hand from its left side and the page of
//! `docs/manual` that its module names, or is given by another program that follows these pages; none is an answer that
//! this program gave.
#![tactic(auto)]

#[cfg(test)]
mod chunks;
#[cfg(test)]
mod commands;
#[cfg(test)]
mod disks;
#[cfg(test)]
mod faults;
#[cfg(test)]
mod final_disk;
#[cfg(test)]
mod generated;
#[cfg(test)]
mod inside;
#[cfg(test)]
mod lines;
#[cfg(test)]
mod log;
#[cfg(test)]
mod ports;
#[cfg(test)]
mod real_files;
