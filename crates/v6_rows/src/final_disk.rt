//! The disk that a run leaves under other names, and that is run again: docs/manual/final-image.md.
use fs_codec::DISK_BYTES;
use run_fixtures::{HI_BYTES, Piece, RUN, end_over, hi_image, host_with};
use std::alloc::{AllocError, Global};
use std::test::Fail;
use v6_port::{MemHost, OutPort};
use v6_run::Status;

/// What process 1 of `examples/hi` leaves in block 4000, since nobody waits for it: SP before its one argument, the PC behind
/// its exit, the processor status word with Z, one click of data and twenty of stack, and each of the nineteen signals
/// ignored. The exit gives up the directory and the files: docs/manual/u-area.md and calls.md.
pub(crate) const GRAVE: &[Piece<'static>] = &[
    (2_048_012, b"\xf0\xff\x12\0\x04\xf0"),
    (2_048_026, b"\x01\0\x14\0"),
    (
        2_048_066,
        b"\x01\0\x01\0\x01\0\x01\0\x01\0\x01\0\x01\0\x01\0\x01\0\x01\0\x01\0\x01\0\x01\0\x01\0\x01\0\x01\0\x01\0\x01\0\x01",
    ),
];

/// The disk of `examples/hi`, of which so many bytes are given.
fn run_over(
    alloc: Global,
    bytes: usize,
    script: &[u8],
    words: &str,
) -> Result<(Status, MemHost), AllocError> {
    let image = hi_image(alloc, bytes, &[])?;
    let mut host = host_with(alloc, &image, script)?;
    let status = end_over(alloc, words, &mut host)?;
    Ok((status, host))
}

#[test]
fn unknown_name_of_the_disk_is_a_write_fault(rt: HostRuntime) -> Result<(), Fail> {
    let words = "run image 1200 script term log other";
    let (status, host) = run_over(rt.alloc(), HI_BYTES, b"run 20\n", words)?;
    let is_unwritten = host.bytes(OutPort::Term).is_empty()
        && host.bytes(OutPort::Final).is_empty();
    assert!(rt; status == Status::WriteFault(OutPort::Final) && is_unwritten);
    Ok(())
}

/// The disk may be left under the image's own name.
#[test]
fn disk_takes_the_name_of_the_image(rt: HostRuntime) -> Result<(), Fail> {
    let image = hi_image(rt.alloc(), HI_BYTES, &[])?;
    let mut host = host_with(rt.alloc(), &image, b"run 20\n")?;
    host.room(OutPort::Final, "image", DISK_BYTES)?;
    let words = "run image 1200 script term log image";
    let status = end_over(rt.alloc(), words, &mut host)?;
    let disk = hi_image(rt.alloc(), DISK_BYTES, GRAVE)?;
    assert!(rt; status == Status::Done && host.bytes(OutPort::Final) == disk.as_slice());
    Ok(())
}

/// A run of what a run has left shows the same and leaves the same, and `check` finds no fault in it.
#[test]
fn disk_that_is_left_runs_again(rt: HostRuntime) -> Result<(), Fail> {
    let (_, first) = run_over(rt.alloc(), HI_BYTES, b"run 20\n", RUN)?;
    let left = first.bytes(OutPort::Final);
    let mut again = host_with(rt.alloc(), left, b"run 20\n")?;
    let status = end_over(rt.alloc(), RUN, &mut again)?;
    let is_same = again.bytes(OutPort::Final) == left
        && again.bytes(OutPort::Term) == first.bytes(OutPort::Term);
    assert!(rt; status == Status::Done && is_same && !left.is_empty());
    let mut checking = host_with(rt.alloc(), left, b"")?;
    let status = end_over(rt.alloc(), "check image", &mut checking)?;
    let is_good = checking.bytes(OutPort::Report) == b"ok 7 nodes 0 free\n".as_slice();
    assert!(rt; status == Status::Done && is_good);
    Ok(())
}
