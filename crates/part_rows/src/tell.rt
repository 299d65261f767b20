//! What a test tells where something doesn't hold: the number of a row in its table, or of a step.
use std::alloc::AllocError;
use std::process::Abort;

/// Something that is no row of a table.
pub fn all(rt: &impl Abort, found: Result<bool, AllocError>) {
    assert!(rt; found.expect(rt, "memory"));
}

/// The same, which needs no memory.
pub fn plain(rt: &impl Abort, holds: bool) {
    assert!(rt; holds);
}

/// A row of a table, from 0 on.
pub fn row(rt: &impl Abort, k: usize, found: Result<bool, AllocError>) {
    assert!(rt; found.expect(rt, "memory"), "row {k}");
}

/// The same, which needs no memory.
pub fn plain_row(rt: &impl Abort, k: usize, holds: bool) {
    assert!(rt; holds, "row {k}");
}

/// The first step that does not hold, of those of a table.
pub fn step(rt: &impl Abort, found: Option<usize>) {
    if let Some(step) = found {
        panic!(rt; "step {step}");
    }
}

/// The first step that does not hold, of those of a row.
pub fn step_in_row(rt: &impl Abort, k: usize, found: Option<usize>) {
    if let Some(step) = found {
        panic!(rt; "row {k}: step {step}");
    }
}

/// The first step that does not hold, of the scene of this name.
pub fn step_of(rt: &impl Abort, name: &str, found: Option<usize>) {
    if let Some(step) = found {
        panic!(rt; "{name}: step {step}");
    }
}
