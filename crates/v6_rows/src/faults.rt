//! What each file holds where a call of the host fails: docs/manual/commands.md.
ghost use Rattle.v6_port.specs.Outside.{IsIdle};
ghost use Rattle.v6_port.specs.Memory.{memory};

use crate::final_disk::GRAVE;
use crate::log::shown_on;
use fs_codec::{BLOCK_SIZE, DISK_BYTES};
use run_fixtures::{HI_BYTES, RUN, end_over, hi_image, host_with, is_front};
use std::alloc::{AllocError, Global};
use std::test::Fail;
use v6_port::{InPort, MemHost, OutPort};
use v6_run::Status;

/// A call of the run of `examples/hi` that fails, the status, how much of what the run shows has been written, and how many
/// blocks of the disk.
pub(crate) type Fault = (u32, Status, usize, usize);

/// The image is opened by call 1, read by nine calls of 4,096 bytes at most, and once more to its end; the script is opened by
/// call 12, and read by two. Then come the three openings.
const OPENINGS: [Fault; 7] = [
    (1, Status::ReadFault(InPort::Image), 0, 0),
    (11, Status::ReadFault(InPort::Image), 0, 0),
    (12, Status::ReadFault(InPort::Script), 0, 0),
    (14, Status::ReadFault(InPort::Script), 0, 0),
    (15, Status::WriteFault(OutPort::Term), 0, 0),
    (16, Status::WriteFault(OutPort::Log), 0, 0),
    (17, Status::WriteFault(OutPort::Final), 0, 0),
];

/// What is shown is 19 writes, one for each line and each byte.
const WRITES: [Fault; 7] = [
    (18, Status::WriteFault(OutPort::Log), 0, 0),
    (19, Status::WriteFault(OutPort::Log), 1, 0),
    (26, Status::WriteFault(OutPort::Term), 8, 0),
    (27, Status::WriteFault(OutPort::Term), 9, 0),
    (29, Status::WriteFault(OutPort::Term), 11, 0),
    (30, Status::WriteFault(OutPort::Log), 12, 0),
    (36, Status::WriteFault(OutPort::Log), 18, 0),
];

/// Then there is a write for each of the 4,000 blocks before the swap area, one for the swap area, and the three finishes.
const ENDS: [Fault; 10] = [
    (37, Status::WriteFault(OutPort::Final), 19, 0),
    (38, Status::WriteFault(OutPort::Final), 19, 1),
    (3_000, Status::WriteFault(OutPort::Final), 19, 2_963),
    (4_036, Status::WriteFault(OutPort::Final), 19, 3_999),
    (4_037, Status::WriteFault(OutPort::Final), 19, 4_000),
    (4_038, Status::WriteFault(OutPort::Term), 19, 4_872),
    (4_039, Status::WriteFault(OutPort::Log), 19, 4_872),
    (4_040, Status::WriteFault(OutPort::Final), 19, 4_872),
    (4_041, Status::Done, 19, 4_872),
    (0, Status::Done, 19, 4_872),
];

/// What a run that ends with this status reports, where it is done or one of these files has failed.
pub(crate) fn report_of(status: Status) -> &'static [u8] {
    match status {
        Status::ReadFault(InPort::Image) => b"read fault: image\n",
        Status::ReadFault(InPort::Second) => b"read fault: second\n",
        Status::ReadFault(InPort::Script) => b"read fault: script\n",
        Status::WriteFault(OutPort::Term) => b"write fault: term\n",
        Status::WriteFault(OutPort::Line(1)) => b"write fault: line1\n",
        Status::WriteFault(OutPort::Line(4)) => b"write fault: line4\n",
        Status::WriteFault(OutPort::Line(7)) => b"write fault: line7\n",
        Status::WriteFault(OutPort::Log) => b"write fault: log\n",
        Status::WriteFault(OutPort::Final) => b"write fault: final\n",
        Status::WriteFault(OutPort::Second) => b"write fault: second\n",
        _ => b"",
    }
}

/// Whether a run of `examples/hi` over this host, whose disk at its end this is, leaves what the row tells.
pub(crate) fn leaves(
    alloc: Global,
    host: &mut MemHost,
    disk: &[u8],
    row: &Fault,
) -> Result<bool, AllocError>
    requires { IsIdle (memory host.old).outside }
{
    let (call, wanted, count, blocks) = *row;
    host.fail(call)?;
    let status = end_over(alloc, RUN, host)?;
    let term = shown_on(alloc, OutPort::Term, count)?;
    let log = shown_on(alloc, OutPort::Log, count)?;
    let written = blocks.min(4_872) * BLOCK_SIZE;
    Ok(
        status == wanted
            && host.bytes(OutPort::Term) == term.as_slice()
            && host.bytes(OutPort::Log) == log.as_slice()
            && is_front(host.bytes(OutPort::Final), disk, written)
            && host.bytes(OutPort::Report) == report_of(wanted),
    )
}

fn leaves_fronts(alloc: Global, row: &Fault) -> Result<bool, AllocError> {
    let image = hi_image(alloc, HI_BYTES, &[])?;
    let disk = hi_image(alloc, DISK_BYTES, GRAVE)?;
    let mut host = host_with(alloc, &image, b"run 20\n")?;
    leaves(alloc, &mut host, &disk, row)
}

#[test]
fn file_that_fails_before_the_run_leaves_nothing(rt: HostRuntime) -> Result<(), Fail> {
    for row in OPENINGS {
        assert!(rt; leaves_fronts(rt.alloc(), &row)?, "{}", row.0);
    }
    Ok(())
}

#[test]
fn write_that_fails_leaves_fronts(rt: HostRuntime) -> Result<(), Fail> {
    for row in WRITES {
        assert!(rt; leaves_fronts(rt.alloc(), &row)?, "{}", row.0);
    }
    Ok(())
}

#[test]
fn disk_that_fails_leaves_its_front(rt: HostRuntime) -> Result<(), Fail> {
    for row in ENDS {
        assert!(rt; leaves_fronts(rt.alloc(), &row)?, "{}", row.0);
    }
    Ok(())
}
