//! Commands over files in memory, with what they must come to.
use crate::hosts::{end_over, host_with};
use std::alloc::{AllocError, Global};
use v6_port::OutPort;
use v6_run::Status;

/// A command over files in memory, and what it must come to.
#[derive(Clone, Copy)]
pub struct Row<'a> {
    pub words: &'a str,
    pub image: &'a [u8],
    pub script: &'a [u8],
    /// The call of the host that fails, or 0.
    pub failing: u32,
    pub status: Status,
    pub term: &'a [u8],
    /// What Final must hold, where that is looked at.
    pub disk: &'a [u8],
    pub looks_at_disk: bool,
    pub report: &'a [u8],
}

/// Whether the row holds, and the log has its last line exactly where a run is done.
pub fn holds(alloc: Global, row: &Row<'_>) -> Result<bool, AllocError> {
    let mut host = host_with(alloc, row.image, row.script)?;
    host.fail(row.failing)?;
    let status = end_over(alloc, row.words, &mut host)?;
    let is_run = status == Status::Done && row.words.starts_with("run ");
    Ok(
        status == row.status
            && host.bytes(OutPort::Term) == row.term
            && host.bytes(OutPort::Log).ends_with(b"end\n") == is_run
            && (!row.looks_at_disk || host.bytes(OutPort::Final) == row.disk)
            && host.bytes(OutPort::Report) == row.report,
    )
}
