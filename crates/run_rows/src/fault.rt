//! Why a row file can't be read.
use std::alloc::{AllocError, AllocFailed};

/// Why a line can't be read: there is no memory, or this is wrong with it.
#[derive(Clone, Copy)]
pub enum Fault {
    Memory,
    Wrong(&'static str),
}

impl From<AllocError> for Fault {
    fn from(_error: AllocError) -> Fault {
        Fault::Memory
    }
}

impl<T: Drop> From<AllocFailed<T>> for Fault {
    fn from(_error: AllocFailed<T>) -> Fault {
        Fault::Memory
    }
}
