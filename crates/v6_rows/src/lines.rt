//! `run8`: what the file of each terminal line holds where a call of the host fails, a line's file has little room, or its name
//! isn't known: docs/manual/commands.md and ports.md.
ghost use Rattle.std.specs.Prelude.{IfOk};
ghost use Rattle.v6_port.specs.Outside.{IsIdle};
ghost use Rattle.v6_port.specs.Memory.{memory};

use crate::faults::{Fault, report_of};
use crate::final_disk::GRAVE;
use fs_codec::{BLOCK_SIZE, DISK_BYTES};
use run_fixtures::{HI_BYTES, Piece, end_over, hi_image, host_with, is_front, put};
use std::alloc::{AllocError, Global};
use std::test::Fail;
use v6_port::{MemHost, OutPort};
use v6_run::Status;

const RUN8: &str = "run8 image 1200 script term log final";

/// Room for all that a line shows.
const ROOM: usize = 16;

/// `/dev/tty1` in the entry of `/dev` behind the four that are there, its inode 8, which is line 1, and its name in the
/// program.
const LINE_1: [Piece<'static>; 4] = [
    (1094, b"\x50"),
    (1248, b"\xb6\xa1\x01\0\0\0\0\0\x01"),
    (32832, b"\x08\0tty1"),
    (33834, b"1"),
];

/// What the run of `examples/hi` on line 1 shows, one thing after another: lines of the log, and bytes of line 1.
const SHOWN: [(OutPort, &[u8]); 19] = [
    (OutPort::Log, b"boot 1200 0\n"),
    (OutPort::Log, b"sleep 0 -100 runout\n"),
    (OutPort::Log, b"go 1\n"),
    (OutPort::Log, b"bare 1\n"),
    (OutPort::Log, b"image 1 37 at 1\n"),
    (OutPort::Log, b"trap 1\n"),
    (OutPort::Log, b"go 1\n"),
    (OutPort::Log, b"trap 1\n"),
    (OutPort::Line(1), b"H"),
    (OutPort::Line(1), b"I"),
    (OutPort::Line(1), b"\r"),
    (OutPort::Line(1), b"\n"),
    (OutPort::Log, b"trap 1\n"),
    (OutPort::Log, b"wake keys.1\n"),
    (OutPort::Log, b"exit 1 swap 4000\n"),
    (OutPort::Log, b"wake wait.1\n"),
    (OutPort::Log, b"wake wait.0\n"),
    (OutPort::Log, b"idle\n"),
    (OutPort::Log, b"end\n"),
];

/// What a port has got of the first so many of them.
fn shown_on(alloc: Global, port: OutPort, count: usize) -> Result<Vec<u8>, AllocError> {
    let mut bytes = Vec::new(alloc);
    for (other, piece) in SHOWN.iter().take(count) {
        if *other == port {
            bytes.extend_from_slice(piece)?;
        }
    }
    Ok(bytes)
}

/// Files in memory with those of the lines, of which that of line 1 has so much room.
fn host_of_eight(alloc: Global, first: usize) -> Result<MemHost, AllocError>
    ensures { IfOk result (λ host. IsIdle (memory host).outside) }
{
    let image = hi_image(alloc, HI_BYTES, &LINE_1)?;
    let mut host = host_with(alloc, &image, b"run 20\n")?;
    host.room(OutPort::Line(1), "term.1", first)?;
    host.room(OutPort::Line(2), "term.2", ROOM)?;
    host.room(OutPort::Line(3), "term.3", ROOM)?;
    host.room(OutPort::Line(4), "term.4", ROOM)?;
    host.room(OutPort::Line(5), "term.5", ROOM)?;
    host.room(OutPort::Line(6), "term.6", ROOM)?;
    host.room(OutPort::Line(7), "term.7", ROOM)?;
    Ok(host)
}

/// Whether the console and the lines 2 to 7 show nothing.
fn others_show_nothing(host: &MemHost) -> bool {
    let is_first = host.bytes(OutPort::Term).is_empty()
        && host.bytes(OutPort::Line(2)).is_empty()
        && host.bytes(OutPort::Line(3)).is_empty()
        && host.bytes(OutPort::Line(4)).is_empty();
    let is_second = host.bytes(OutPort::Line(5)).is_empty()
        && host.bytes(OutPort::Line(6)).is_empty()
        && host.bytes(OutPort::Line(7)).is_empty();
    is_first && is_second
}

/// Whether line 1, the log and the disk have what so many pieces and blocks come to, and the other lines nothing.
fn holds_fronts(
    alloc: Global,
    host: &MemHost,
    count: usize,
    blocks: usize,
) -> Result<bool, AllocError> {
    let mut disk = hi_image(alloc, DISK_BYTES, &LINE_1)?;
    put(&mut disk, GRAVE);
    let line = shown_on(alloc, OutPort::Line(1), count)?;
    let log = shown_on(alloc, OutPort::Log, count)?;
    let written = blocks.min(4_872) * BLOCK_SIZE;
    Ok(
        host.bytes(OutPort::Line(1)) == line.as_slice()
            && host.bytes(OutPort::Log) == log.as_slice()
            && others_show_nothing(host)
            && is_front(host.bytes(OutPort::Final), &disk, written),
    )
}

/// The image is opened by call 1, read by nine calls and once more, and the script by call 12 and two more. Then come the ten
/// openings: of Term, of the lines 1 to 7, of Log and of Final.
const OPENINGS: [Fault; 6] = [
    (15, Status::WriteFault(OutPort::Term), 0, 0),
    (16, Status::WriteFault(OutPort::Line(1)), 0, 0),
    (19, Status::WriteFault(OutPort::Line(4)), 0, 0),
    (22, Status::WriteFault(OutPort::Line(7)), 0, 0),
    (23, Status::WriteFault(OutPort::Log), 0, 0),
    (24, Status::WriteFault(OutPort::Final), 0, 0),
];

/// The first piece is written by call 25, and the bytes of line 1 by the calls 33 to 36.
const WRITES: [Fault; 4] = [
    (25, Status::WriteFault(OutPort::Log), 0, 0),
    (33, Status::WriteFault(OutPort::Line(1)), 8, 0),
    (36, Status::WriteFault(OutPort::Line(1)), 11, 0),
    (43, Status::WriteFault(OutPort::Log), 18, 0),
];

/// The disk is written by the calls 44 to 4,044, and the ten files are finished in the order in which they were opened.
const ENDS: [Fault; 7] = [
    (44, Status::WriteFault(OutPort::Final), 19, 0),
    (4_045, Status::WriteFault(OutPort::Term), 19, 4_872),
    (4_046, Status::WriteFault(OutPort::Line(1)), 19, 4_872),
    (4_052, Status::WriteFault(OutPort::Line(7)), 19, 4_872),
    (4_053, Status::WriteFault(OutPort::Log), 19, 4_872),
    (4_054, Status::WriteFault(OutPort::Final), 19, 4_872),
    (4_055, Status::Done, 19, 4_872),
];

fn leaves(alloc: Global, row: &Fault) -> Result<bool, AllocError> {
    let (call, wanted, count, blocks) = *row;
    let mut host = host_of_eight(alloc, ROOM)?;
    host.fail(call)?;
    let status = end_over(alloc, RUN8, &mut host)?;
    let is_told = status == wanted && host.bytes(OutPort::Report) == report_of(wanted);
    let has_fronts = holds_fronts(alloc, &host, count, blocks)?;
    Ok(is_told && has_fronts)
}

#[test]
fn file_of_a_line_that_cant_be_opened_leaves_nothing(rt: HostRuntime) -> Result<(), Fail> {
    for row in OPENINGS {
        assert!(rt; leaves(rt.alloc(), &row)?, "{}", row.0);
    }
    Ok(())
}

#[test]
fn write_on_a_line_that_fails_leaves_fronts(rt: HostRuntime) -> Result<(), Fail> {
    for row in WRITES {
        assert!(rt; leaves(rt.alloc(), &row)?, "{}", row.0);
    }
    Ok(())
}

#[test]
fn files_of_lines_are_finished_in_their_order(rt: HostRuntime) -> Result<(), Fail> {
    for row in ENDS {
        assert!(rt; leaves(rt.alloc(), &row)?, "{}", row.0);
    }
    Ok(())
}

#[test]
fn unknown_name_of_a_line_is_a_write_fault(rt: HostRuntime) -> Result<(), Fail> {
    let mut host = host_of_eight(rt.alloc(), ROOM)?;
    host.room(OutPort::Line(4), "other", 0)?;
    let status = end_over(rt.alloc(), RUN8, &mut host)?;
    let is_unwritten = holds_fronts(rt.alloc(), &host, 0, 0)?;
    let report = b"write fault: line4\n".as_slice();
    assert!(rt;
        status == Status::WriteFault(OutPort::Line(4))
            && is_unwritten
            && host.bytes(OutPort::Report) == report
    );
    Ok(())
}

/// Two bytes of line 1 have room: nothing more goes out, and the log ends before them.
#[test]
fn line_that_is_full_stops_the_run(rt: HostRuntime) -> Result<(), Fail> {
    let mut host = host_of_eight(rt.alloc(), 2)?;
    let status = end_over(rt.alloc(), RUN8, &mut host)?;
    let is_cut = holds_fronts(rt.alloc(), &host, 10, 0)?;
    let report = b"write fault: line1\n".as_slice();
    assert!(rt;
        status == Status::WriteFault(OutPort::Line(1))
            && is_cut
            && host.bytes(OutPort::Report) == report
    );
    Ok(())
}
