//! How commands end and what they report where a call of the host fails, or a name isn't known: docs/manual/commands.md. Where
//! none fails, the rows are files (docs/rows.md).
use run_fixtures::{
    HI_BYTES, OneByte, Piece, ROOMS, RUN, Rooms, Row, end_over, hi_image, holds, host_in,
    host_with, put,
};
use std::alloc::{AllocError, Global};
use std::test::Fail;
use unix_core::SecondFault;
use v6_port::{InPort, OutPort};
use v6_run::{ImageFault, PanicKind, ScriptFault, Status};

/// The least disk without a fault: a block of inodes of which the first is a directory, and one data block.
const LEAST_DISK: [Piece<'static>; 2] = [(512, b"\x01\x00\x04\x00"), (1024, b"\xed\xc1")];

/// Words over that disk, the call of the host that fails or 0, the status, and the report.
type Ended<'a> = (&'a str, u32, Status, &'a [u8]);

/// A core size that is refused: no file is opened, so the first call of the host is the report's, and fails.
const SIZES: [Ended<'static>; 1] = [(
    "run image 63 script term log final",
    1,
    Status::CoreSize,
    b"",
)];

/// The second call is the first read of the image, the fifth that of the script. The terminal's port expects another name.
const RUNS: [Ended<'static>; 3] = [
    (
        RUN,
        2,
        Status::ReadFault(InPort::Image),
        b"read fault: image\n",
    ),
    (
        RUN,
        5,
        Status::ReadFault(InPort::Script),
        b"read fault: script\n",
    ),
    (
        "run image 64 script other log final",
        0,
        Status::WriteFault(OutPort::Term),
        b"write fault: term\n",
    ),
];

/// Where `check` is done, its fourth call is the report; of `demo` it is the first. The first two calls of `audit` open and
/// read its log, and the third says what that is not; a report that fails leaves that.
const OTHERS: [Ended<'static>; 7] = [
    (
        "audit script",
        1,
        Status::ReadFault(InPort::Log),
        b"read fault: log\n",
    ),
    (
        "audit script",
        2,
        Status::ReadFault(InPort::Log),
        b"read fault: log\n",
    ),
    ("audit script", 3, Status::BadLog(1), b""),
    ("check image", 4, Status::WriteFault(OutPort::Report), b""),
    ("demo 12", 1, Status::WriteFault(OutPort::Report), b""),
    (
        "make 12 final",
        1,
        Status::WriteFault(OutPort::Final),
        b"write fault: final\n",
    ),
    (
        "make 12 other",
        0,
        Status::WriteFault(OutPort::Final),
        b"write fault: final\n",
    ),
];

fn least_disk_gives(alloc: Global, row: &Ended<'_>) -> Result<bool, AllocError> {
    let (words, failing, status, report) = *row;
    let mut image = vec![in alloc; 0; 1026]?;
    put(&mut image, &LEAST_DISK);
    holds(
        alloc,
        &Row {
            words,
            image: &image,
            script: b"run 20\n",
            failing,
            status,
            term: b"",
            disk: b"",
            looks_at_disk: false,
            report,
        },
    )
}

#[test]
fn refused_core_size_opens_no_file(rt: HostRuntime) -> Result<(), Fail> {
    for row in SIZES {
        assert!(rt; least_disk_gives(rt.alloc(), &row)?, "{}, {}", row.0, row.1);
    }
    Ok(())
}

#[test]
fn runs_whose_files_fail_end_before_their_first_slot(rt: HostRuntime) -> Result<(), Fail> {
    for row in RUNS {
        assert!(rt; least_disk_gives(rt.alloc(), &row)?, "{}, {}", row.0, row.1);
    }
    Ok(())
}

#[test]
fn other_commands_whose_files_fail_end_as_the_manual_says(rt: HostRuntime) -> Result<(), Fail> {
    for row in OTHERS {
        assert!(rt; least_disk_gives(rt.alloc(), &row)?, "{}, {}", row.0, row.1);
    }
    Ok(())
}

/// The numbers that a program exits with.
const NUMBERS: [(Status, u8); 13] = [
    (Status::Done, 0),
    (Status::Usage, 1),
    (Status::ReadFault(InPort::Script), 2),
    (Status::WriteFault(OutPort::Report), 3),
    (Status::CoreSize, 4),
    (Status::ScriptFault(ScriptFault::TooLong), 5),
    (Status::ImageFault(ImageFault::TooLong), 6),
    (Status::Panic(PanicKind::Swap), 7),
    (Status::NoMemory, 8),
    (Status::Unlawful(1), 9),
    (Status::BadLog(1), 10),
    (Status::SecondFault(SecondFault::Nodes(65_536)), 12),
    (Status::LogTooLong, 13),
];

#[test]
fn statuses_have_their_numbers(rt: HostRuntime) {
    for (status, number) in NUMBERS {
        assert!(rt; status.number() == number, "{number}");
    }
}

/// Whether a command whose report has room for five bytes ends with a fault of that port, which has these.
fn report_is_cut(
    alloc: Global,
    words: &str,
    script: &[u8],
    front: &[u8],
) -> Result<bool, AllocError> {
    let image = hi_image(alloc, HI_BYTES, &[])?;
    let rooms = Rooms { report: 5, ..ROOMS };
    let mut host = host_in(alloc, &image, script, rooms)?;
    let status = end_over(alloc, words, &mut host)?;
    Ok(host.bytes(OutPort::Report) == front && status == Status::WriteFault(OutPort::Report))
}

#[test]
fn failed_report_of_check_is_a_write_fault(rt: HostRuntime) -> Result<(), Fail> {
    assert!(rt; report_is_cut(rt.alloc(), "check image", b"", b"ok 7 ")?);
    Ok(())
}

#[test]
fn failed_report_of_demo_is_a_write_fault(rt: HostRuntime) -> Result<(), Fail> {
    assert!(rt; report_is_cut(rt.alloc(), "demo 12", b"", b"demo ")?);
    Ok(())
}

/// A lawful log: process 1 ends, and nobody can run.
const LAWFUL: &[u8] = b"boot 64 0\nsleep 0 -100 runout\ngo 1\nexit 1 swap 4000\nidle\nend\n";

#[test]
fn failed_report_of_a_lawful_audit_is_a_write_fault(rt: HostRuntime) -> Result<(), Fail> {
    assert!(rt; report_is_cut(rt.alloc(), "audit script", LAWFUL, b"lawfu")?);
    Ok(())
}

#[test]
fn log_is_judged_one_byte_a_call(rt: HostRuntime) -> Result<(), Fail> {
    let image = hi_image(rt.alloc(), HI_BYTES, &[])?;
    let mut host = OneByte {
        host: host_with(rt.alloc(), &image, LAWFUL)?,
    };
    let status = end_over(rt.alloc(), "audit script", &mut host)?;
    let report = b"lawful: 6 lines\n".as_slice();
    assert!(rt; status == Status::Done && host.host.bytes(OutPort::Report) == report);
    Ok(())
}

/// Eight bytes of the log are read a call. The third read fails, behind a first line that is lawful: no line is told.
#[test]
fn later_read_of_a_log_fails(rt: HostRuntime) -> Result<(), Fail> {
    let image = hi_image(rt.alloc(), HI_BYTES, &[])?;
    let mut host = host_with(rt.alloc(), &image, LAWFUL)?;
    host.chunk(8);
    host.fail(4)?;
    let status = end_over(rt.alloc(), "audit script", &mut host)?;
    let report = b"read fault: log\n".as_slice();
    assert!(rt; status == Status::ReadFault(InPort::Log) && host.bytes(OutPort::Report) == report);
    Ok(())
}
