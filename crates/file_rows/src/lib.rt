//! Rows that judge the definitions of disks, files and names, and of the calls on files. There is no code here but tests, over
//! the public calls of the crates below.
#![tactic(auto)]

#[cfg(test)]
mod file_system;
#[cfg(test)]
mod system_calls;
