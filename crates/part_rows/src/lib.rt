//! Rows that judge the definitions of single parts: the processor and memory, the line of a terminal, the tables of
//! processes, scripts and the log, images and their sizes. A call that is proved equal to its definition is as right as
//! the definition: what a proof can't see is a page of the manual, of the handbook or of Lions' Commentary that was
//! misread in both.
//!
//! There is no code here but tests and a word for what a slot has, over the public calls of the crates below. What a row
//! must come to is worked by hand from its left side and the page that its module names, or is given by another program
//! that follows these pages; none is an answer that this program gave.
#![tactic(auto)]

#[cfg(test)]
mod eight;
#[cfg(test)]
mod images;
#[cfg(test)]
mod instructions;
mod kind;
#[cfg(test)]
mod lines;
#[cfg(test)]
mod log_lines;
#[cfg(test)]
mod memory;
#[cfg(test)]
mod parents;
#[cfg(test)]
mod passes;
#[cfg(test)]
mod scripts;
#[cfg(test)]
mod signals;
#[cfg(test)]
mod tables;
#[cfg(test)]
mod tell;
#[cfg(test)]
mod words;

pub use kind::Kind;
