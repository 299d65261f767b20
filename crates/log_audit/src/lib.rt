//! The auditor: whether the lines of a log are lawful, by the lines alone.
#![tactic(auto)]

mod audit;
mod coming_in;
mod cutting;
mod ending;
mod exec;
mod fits;
mod forking;
mod growing;
mod leaving;
mod lines;
mod moving;
mod parting;
mod places;
mod standing;
mod swapper;
mod take;
mod texts;
mod world;

pub use audit::{Audit, Judged};
