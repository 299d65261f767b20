//! Commands over files of the system: docs/manual/ports.md. What is held goes out, also where a run ends early, and what can't
//! go out is a fault.
use crate::final_disk::GRAVE;
use crate::log::shown_on;
use fs_codec::DISK_BYTES;
use run_fixtures::{HI_BYTES, Piece, RUN, TEXT, end_over, hi_image, is_front, put};
use std::fs;
use std::test::Fail;
use v6_port::{FileHost, Host, OutPort};
use v6_run::Status;

/// The words of `run`, with a device that has no room for the terminal.
const RUN_ONTO_FULL: &str = "run image 1200 script /dev/full log final";

/// A program that opens `/dev/tty8` and then writes 128 bytes over and over: open, 24, 1; write, 40, 128; CLR R0; BR to the
/// write. Before it the size of its file, 184, and of its text, 168.
const LOOP: &[Piece<'static>] = &[
    (1222, b"\xb8"),
    (33794, b"\xa8"),
    (
        TEXT,
        b"\x05\x89\x18\x00\x01\x00\x04\x89\x28\x00\x80\x00\x00\x0a\xfb\x01",
    ),
    (TEXT + 24, b"/dev/tty8\0"),
    (TEXT + 40, &[b'A'; 128]),
];

/// A command over the disk of `examples/hi`, changed, and what it must come to: its status, and a piece that the terminal's
/// file holds, how often, once the host has gone.
#[derive(Clone, Copy)]
struct FileRow<'a> {
    name: &'a str,
    pieces: &'a [Piece<'a>],
    script: &'a str,
    words: &'a str,
    status: Status,
    shown: Option<(&'a [u8], usize)>,
    /// What processes that have ended leave in the swap area.
    graves: &'a [Piece<'a>],
    /// How many bytes of the disk the file `final` then holds, where it is looked at.
    disk: Option<usize>,
}

const FILE_ROWS: [FileRow<'static>; 7] = [
    FileRow {
        name: "hi_over_files",
        pieces: &[],
        script: "run 20\n",
        words: RUN,
        status: Status::Done,
        shown: Some((b"HI\r\n", 1)),
        graves: GRAVE,
        disk: Some(2_494_464),
    },
    // The first slot is the exec, the second the open, and each third from the third on a write: 100 in 300.
    FileRow {
        name: "more bytes than are held at once",
        pieces: LOOP,
        script: "run 300\n",
        words: RUN,
        status: Status::Done,
        shown: Some((&[b'A'; 128], 100)),
        graves: &[],
        disk: Some(2_494_464),
    },
    FileRow {
        name: "full device at the finish",
        pieces: &[],
        script: "run 20\n",
        words: RUN_ONTO_FULL,
        status: Status::WriteFault(OutPort::Term),
        shown: None,
        graves: &[],
        disk: None,
    },
    FileRow {
        name: "full device at a write",
        pieces: LOOP,
        script: "run 300\n",
        words: RUN_ONTO_FULL,
        status: Status::WriteFault(OutPort::Term),
        shown: None,
        graves: &[],
        disk: None,
    },
    // The terminal's file got all before.
    FileRow {
        name: "full device for the disk",
        pieces: &[],
        script: "run 20\n",
        words: "run image 1200 script term log /dev/full",
        status: Status::WriteFault(OutPort::Final),
        shown: Some((b"HI\r\n", 1)),
        graves: &[],
        disk: None,
    },
    FileRow {
        name: "full device for the log",
        pieces: &[],
        script: "run 20\n",
        words: "run image 1200 script term /dev/full final",
        status: Status::WriteFault(OutPort::Log),
        shown: Some((b"HI\r\n", 1)),
        graves: &[],
        disk: None,
    },
    FileRow {
        name: "disk made onto a full device",
        pieces: &[],
        script: "",
        words: "make 12 /dev/full",
        status: Status::WriteFault(OutPort::Final),
        shown: None,
        graves: &[],
        disk: None,
    },
];

/// The host goes at the end.
fn end_over_files(rt: &HostRuntime, words: &str) -> Result<Status, Fail> {
    let mut host = FileHost::new(rt.clone()?);
    Ok(end_over(rt.alloc(), words, &mut host)?)
}

/// Whether the terminal's file holds the piece, this number of times, and nothing else. The file is removed.
fn is_shown(rt: &HostRuntime, piece: &[u8], times: usize) -> Result<bool, Fail> {
    let mut wanted = Vec::new(rt.alloc());
    for _ in 0..times {
        wanted.extend_from_slice(piece)?;
    }
    let shown = fs::read(rt, "term")?;
    fs::remove_file(rt, "term")?;
    Ok(shown.as_slice() == wanted.as_slice())
}

/// Whether the file `final` holds so many bytes of the disk that the row leaves, and nothing else. The file is removed.
fn is_left(rt: &HostRuntime, row: &FileRow<'_>, bytes: usize) -> Result<bool, Fail> {
    let mut disk = hi_image(rt.alloc(), DISK_BYTES, row.pieces)?;
    put(&mut disk, row.graves);
    let left = fs::read(rt, "final")?;
    fs::remove_file(rt, "final")?;
    Ok(is_front(left.as_slice(), &disk, bytes))
}

fn end_of_row(rt: &HostRuntime, row: &FileRow<'_>) -> Result<Status, Fail> {
    let image = hi_image(rt.alloc(), HI_BYTES, row.pieces)?;
    fs::write(rt, "image", image.as_slice())?;
    fs::write(rt, "script", row.script)?;
    let status = end_over_files(rt, row.words)?;
    fs::remove_file(rt, "script")?;
    Ok(status)
}

fn file_row_holds(rt: &HostRuntime, row: &FileRow<'_>) -> Result<bool, Fail> {
    let mut holds = end_of_row(rt, row)? == row.status;
    fs::remove_file(rt, "image")?;
    if let Some((piece, times)) = row.shown {
        holds = is_shown(rt, piece, times)? && holds;
    }
    match row.disk {
        Some(bytes) => holds = is_left(rt, row, bytes)? && holds,
        None => {
            let _ = fs::remove_file(rt, "final");
        }
    }
    let _ = fs::remove_file(rt, "log");
    Ok(holds)
}

/// The image's own file gets the disk, and the log's file the log.
#[test]
fn image_is_left_as_the_final_disk(rt: HostRuntime) -> Result<(), Fail> {
    let image = hi_image(rt.alloc(), HI_BYTES, &[])?;
    fs::write(&rt, "image", image.as_slice())?;
    fs::write(&rt, "script", "run 20\n")?;
    let status = end_over_files(&rt, "run image 1200 script term log image")?;
    let left = fs::read(&rt, "image")?;
    let disk = hi_image(rt.alloc(), DISK_BYTES, GRAVE)?;
    let log = fs::read(&rt, "log")?;
    let shown = shown_on(rt.alloc(), OutPort::Log, 19)?;
    for name in ["image", "script", "term", "log"] {
        fs::remove_file(&rt, name)?;
    }
    let is_logged = log.as_slice() == shown.as_slice();
    assert!(rt; status == Status::Done && left.as_slice() == disk.as_slice() && is_logged);
    Ok(())
}

#[test]
fn files_of_the_system_get_all_or_there_is_a_fault(rt: HostRuntime) -> Result<(), Fail> {
    for row in FILE_ROWS {
        assert!(rt; file_row_holds(&rt, &row)?, "{}", row.name);
    }
    Ok(())
}

fn write_and_let_go(rt: &HostRuntime) -> Result<(), Fail> {
    let mut host = FileHost::new(rt.clone()?);
    host.open_write(OutPort::Log, "held")?;
    host.write(OutPort::Log, b"abc")?;
    Ok(())
}

#[test]
fn what_a_host_holds_goes_out_when_it_goes(rt: HostRuntime) -> Result<(), Fail> {
    write_and_let_go(&rt)?;
    let is_out = fs::read(&rt, "held")?.as_slice() == b"abc".as_slice();
    fs::remove_file(&rt, "held")?;
    assert!(rt; is_out);
    Ok(())
}
