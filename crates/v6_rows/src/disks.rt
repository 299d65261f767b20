//! `run2`: what each file holds where a call of the host fails, the file of the second disk has little room, or its name isn't
//! known: docs/manual/commands.md and ports.md.
ghost use Rattle.std.specs.Prelude.{IfOk};
ghost use Rattle.v6_port.specs.Outside.{IsIdle};
ghost use Rattle.v6_port.specs.Memory.{memory};

use crate::faults::report_of;
use crate::final_disk::GRAVE;
use crate::log::shown_on;
use fs_codec::{BLOCK_SIZE, DISK_BYTES};
use run_fixtures::{HI_BYTES, end_over, hi_image, host_with, is_front};
use std::alloc::{AllocError, Global};
use std::test::Fail;
use v6_port::{InPort, MemHost, OutPort};
use v6_run::Status;

const RUN2: &str = "run2 image 1200 script term log final image2 final2";

/// The second image is that of `examples/hi` up to the end of its root's inode. What is behind it counts as zeros, and nobody
/// mounts it, so that is what is left.
const SECOND_BYTES: usize = 1056;

/// Files in memory with those of the second disk, which has room for so many bytes.
fn host_of_two(alloc: Global, room: usize) -> Result<MemHost, AllocError>
    ensures { IfOk result (λ host. IsIdle (memory host).outside) }
{
    let image = hi_image(alloc, HI_BYTES, &[])?;
    let second = hi_image(alloc, SECOND_BYTES, &[])?;
    let mut host = host_with(alloc, &image, b"run 20\n")?;
    host.add("image2", &second)?;
    host.room(OutPort::Second, "final2", room)?;
    Ok(host)
}

/// Whether the terminal and the log have what so many pieces come to, and FINAL and FINAL2 so many bytes of their disks.
fn holds_fronts(
    alloc: Global,
    host: &MemHost,
    count: usize,
    first: usize,
    second: usize,
) -> Result<bool, AllocError> {
    let disk = hi_image(alloc, DISK_BYTES, GRAVE)?;
    let mut other = hi_image(alloc, SECOND_BYTES, &[])?;
    other.resize(DISK_BYTES, 0)?;
    let term = shown_on(alloc, OutPort::Term, count)?;
    let log = shown_on(alloc, OutPort::Log, count)?;
    Ok(
        host.bytes(OutPort::Term) == term.as_slice()
            && host.bytes(OutPort::Log) == log.as_slice()
            && is_front(host.bytes(OutPort::Final), &disk, first)
            && is_front(host.bytes(OutPort::Second), &other, second),
    )
}

/// A call of the run that fails, the status, how many pieces have been shown, and how many blocks of each disk written.
type Fault = (u32, Status, usize, usize, usize);

/// The image is opened by call 1, read by nine calls and once more. Then the second one is opened by call 12 and read by two,
/// and so is the script by the calls 15 to 17.
const READINGS: [Fault; 5] = [
    (11, Status::ReadFault(InPort::Image), 0, 0, 0),
    (12, Status::ReadFault(InPort::Second), 0, 0, 0),
    (13, Status::ReadFault(InPort::Second), 0, 0, 0),
    (14, Status::ReadFault(InPort::Second), 0, 0, 0),
    (15, Status::ReadFault(InPort::Script), 0, 0, 0),
];

/// Then come the four openings.
const OPENINGS: [Fault; 4] = [
    (18, Status::WriteFault(OutPort::Term), 0, 0, 0),
    (19, Status::WriteFault(OutPort::Log), 0, 0, 0),
    (20, Status::WriteFault(OutPort::Final), 0, 0, 0),
    (21, Status::WriteFault(OutPort::Second), 0, 0, 0),
];

/// What is shown is written by the calls 22 to 40. FINAL is written by the calls 41 to 4,041, a block each and the swap area by
/// the last; then FINAL2, which has no swap area, by 4,872 more.
const WRITES: [Fault; 7] = [
    (22, Status::WriteFault(OutPort::Log), 0, 0, 0),
    (40, Status::WriteFault(OutPort::Log), 18, 0, 0),
    (41, Status::WriteFault(OutPort::Final), 19, 0, 0),
    (4_041, Status::WriteFault(OutPort::Final), 19, 4_000, 0),
    (4_042, Status::WriteFault(OutPort::Second), 19, 4_872, 0),
    (4_043, Status::WriteFault(OutPort::Second), 19, 4_872, 1),
    (8_913, Status::WriteFault(OutPort::Second), 19, 4_872, 4_871),
];

/// The files are finished in the order in which they were opened, FINAL2 behind FINAL.
const ENDS: [Fault; 5] = [
    (8_914, Status::WriteFault(OutPort::Term), 19, 4_872, 4_872),
    (8_915, Status::WriteFault(OutPort::Log), 19, 4_872, 4_872),
    (8_916, Status::WriteFault(OutPort::Final), 19, 4_872, 4_872),
    (8_917, Status::WriteFault(OutPort::Second), 19, 4_872, 4_872),
    (8_918, Status::Done, 19, 4_872, 4_872),
];

/// Words with a name that isn't there, the status and the report.
type Unknown = (&'static str, Status, &'static [u8]);

const UNKNOWN: [Unknown; 2] = [
    (
        "run2 image 1200 script term log final other final2",
        Status::ReadFault(InPort::Second),
        b"read fault: second\n",
    ),
    (
        "run2 image 1200 script term log final image2 other",
        Status::WriteFault(OutPort::Second),
        b"write fault: second\n",
    ),
];

fn leaves(alloc: Global, row: &Fault) -> Result<bool, AllocError> {
    let (call, wanted, count, first, second) = *row;
    let mut host = host_of_two(alloc, DISK_BYTES)?;
    host.fail(call)?;
    let status = end_over(alloc, RUN2, &mut host)?;
    let is_told = status == wanted && host.bytes(OutPort::Report) == report_of(wanted);
    let first = first.min(4_872) * BLOCK_SIZE;
    let second = second.min(4_872) * BLOCK_SIZE;
    let has_fronts = holds_fronts(alloc, &host, count, first, second)?;
    Ok(is_told && has_fronts)
}

#[test]
fn second_image_that_cant_be_read_leaves_nothing(rt: HostRuntime) -> Result<(), Fail> {
    for row in READINGS {
        assert!(rt; leaves(rt.alloc(), &row)?, "{}", row.0);
    }
    Ok(())
}

#[test]
fn file_of_two_disks_that_cant_be_opened_leaves_nothing(rt: HostRuntime) -> Result<(), Fail> {
    for row in OPENINGS {
        assert!(rt; leaves(rt.alloc(), &row)?, "{}", row.0);
    }
    Ok(())
}

#[test]
fn write_of_two_disks_that_fails_leaves_fronts(rt: HostRuntime) -> Result<(), Fail> {
    for row in WRITES {
        assert!(rt; leaves(rt.alloc(), &row)?, "{}", row.0);
    }
    Ok(())
}

#[test]
fn second_disk_is_finished_behind_the_first(rt: HostRuntime) -> Result<(), Fail> {
    for row in ENDS {
        assert!(rt; leaves(rt.alloc(), &row)?, "{}", row.0);
    }
    Ok(())
}

#[test]
fn unknown_name_of_a_second_disk_is_a_fault(rt: HostRuntime) -> Result<(), Fail> {
    for row in UNKNOWN {
        let (words, wanted, report) = row;
        let mut host = host_of_two(rt.alloc(), DISK_BYTES)?;
        let status = end_over(rt.alloc(), words, &mut host)?;
        let is_unwritten = holds_fronts(rt.alloc(), &host, 0, 0, 0)?;
        let is_told = host.bytes(OutPort::Report) == report;
        assert!(rt; status == wanted && is_unwritten && is_told, "{}", words);
    }
    Ok(())
}

/// There is room for a block of the second disk and 188 bytes of the next one.
#[test]
fn second_disk_that_is_full_leaves_its_front(rt: HostRuntime) -> Result<(), Fail> {
    let mut host = host_of_two(rt.alloc(), 700)?;
    let status = end_over(rt.alloc(), RUN2, &mut host)?;
    let is_cut = holds_fronts(rt.alloc(), &host, 19, DISK_BYTES, 700)?;
    let report = b"write fault: second\n".as_slice();
    assert!(rt;
        status == Status::WriteFault(OutPort::Second)
            && is_cut
            && host.bytes(OutPort::Report) == report
    );
    Ok(())
}
