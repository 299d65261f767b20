//! Whether a run comes to what its row says.
ghost use Rattle.std.specs.Prelude.{IfOk};
ghost use Rattle.v6_port.specs.Outside.{IsIdle};
ghost use Rattle.v6_port.specs.Memory.{memory};

use crate::disk::Disk;
use crate::image::{image_of, plain_image};
use crate::row::Row;
use fs_codec::DISK_BYTES;
use run_fixtures::{Rooms, end_over, have, host_in, host_with, put};
use std::alloc::{AllocError, Global};
use v6_port::{MemHost, OutPort};
use v6_run::Status;

/// Room for what the longest runs show.
const ROOMS: Rooms = Rooms {
    term: 65_536,
    log: 4_194_304,
    report: 256,
};

/// Room for what a line beside the console shows.
const LINE_ROOM: usize = 16_384;

/// Something that came out otherwise than the row says.
#[derive(Drop)]
pub struct Difference {
    pub what: &'static str,
    pub wanted: Vec<u8>,
    pub came: Vec<u8>,
}

/// A difference, where there is one.
fn compared(
    alloc: Global,
    what: &'static str,
    wanted: &[u8],
    came: &[u8],
) -> Result<Option<Difference>, AllocError> {
    if wanted == came {
        return Ok(None);
    }
    Ok(Some(Difference {
        what,
        wanted: wanted.to_vec(alloc)?,
        came: came.to_vec(alloc)?,
    }))
}

/// The words of the row's command.
fn words_of(alloc: Global, row: &Row) -> Result<String, AllocError> {
    match &row.command {
        Some(words) => words.clone(),
        None => {
            let core = row.numbers.core;
            format!(in alloc; "run image {core} script term log final")
        }
    }
}

/// Whether the row's command is one of those that keep a log: `run`, and those of more lines or disks.
fn is_run(row: &Row) -> bool {
    match &row.command {
        None => true,
        Some(words) => words.as_str().starts_with("run"),
    }
}

/// Files in memory, with room for the terminals of all lines.
fn host_of_lines(alloc: Global, row: &Row, image: &[u8]) -> Result<MemHost, AllocError>
    ensures { IfOk result (λ host. IsIdle (memory host).outside) }
{
    let mut host = host_in(alloc, image, &row.script, ROOMS)?;
    host.room(OutPort::Line(1), "term.1", LINE_ROOM)?;
    host.room(OutPort::Line(2), "term.2", LINE_ROOM)?;
    host.room(OutPort::Line(3), "term.3", LINE_ROOM)?;
    host.room(OutPort::Line(4), "term.4", LINE_ROOM)?;
    host.room(OutPort::Line(5), "term.5", LINE_ROOM)?;
    host.room(OutPort::Line(6), "term.6", LINE_ROOM)?;
    host.room(OutPort::Line(7), "term.7", LINE_ROOM)?;
    Ok(host)
}

/// The same with a second disk, and room for what is left of it.
fn host_of_two(alloc: Global, row: &Row, image: &[u8], second: &[u8]) -> Result<MemHost, AllocError>
    ensures { IfOk result (λ host. IsIdle (memory host).outside) }
{
    let mut host = host_of_lines(alloc, row, image)?;
    host.add("image2", second)?;
    host.room(OutPort::Second, "final2", DISK_BYTES)?;
    Ok(host)
}

/// The host of the row: with a second disk where the row has one.
fn host_of(alloc: Global, row: &Row, image: &[u8], second: &[u8]) -> Result<MemHost, AllocError>
    ensures { IfOk result (λ host. IsIdle (memory host).outside) }
{
    if row.has_second {
        return host_of_two(alloc, row, image, second);
    }
    host_of_lines(alloc, row, image)
}

/// A word of the image.
fn word_at(image: &[u8], at: usize) -> u16 {
    match image.get(at..) {
        Some([low, high, ..]) => u16::from_le_bytes([*low, *high]),
        _ => 0,
    }
}

/// The log that is wanted: where it begins with `booted`, from the machine's boot up to the choice after the exec of
/// `/etc/init`. The time is that of the super-block, its high word first.
fn log_of(alloc: Global, row: &Row, image: &[u8]) -> Result<Vec<u8>, AllocError> {
    let mut log = Vec::new(alloc);
    if row.is_booted {
        let core = row.numbers.core;
        let time = u32::from(word_at(image, 924)) * 65_536 + u32::from(word_at(image, 926));
        let boot = format!(in alloc; "boot {core} {time}\nsleep 0 -100 runout\ngo 1\nbare 1\n")?;
        log.extend_from_slice(boot.as_bytes())?;
        let clicks = row.numbers.clicks;
        let exec = format!(in alloc; "image 1 {clicks} at 1\ntrap 1\ngo 1\n")?;
        log.extend_from_slice(exec.as_bytes())?;
    }
    log.extend_from_slice(&row.log)?;
    Ok(log)
}

/// The whole log, or, where the row has none, whether its last line is `end`: exactly where a run is done.
fn log_differs(
    alloc: Global,
    row: &Row,
    image: &[u8],
    log: &[u8],
) -> Result<Option<Difference>, AllocError> {
    if row.has_log {
        let wanted = log_of(alloc, row, image)?;
        let before = log.len().saturating_sub(wanted.len());
        let came = if row.is_end { log.get(before..) } else { None };
        return compared(alloc, "log", &wanted, came.unwrap_or(log));
    }
    let ends = row.numbers.status == 0 && is_run(row);
    if log.ends_with(b"end\n") == ends {
        return Ok(None);
    }
    let wanted: &[u8] = if ends { b"end" } else { b"none" };
    compared(alloc, "last line of the log", wanted, log)
}

/// Where the swap area begins: block 4000.
const SWAP_AT: usize = 2_048_000;

/// A disk, as far as it comes before its swap area; or all of what isn't as long as a disk.
fn before_swap(disk: &[u8], swap_at: usize) -> &[u8] {
    if disk.len() == DISK_BYTES {
        disk.get(..swap_at).unwrap_or(disk)
    } else {
        disk
    }
}

/// Whether a run that comes to this leaves a disk: one that is done, and one that comes to a panic, where it isn't `memory`.
fn leaves_disk(row: &Row) -> bool {
    row.numbers.status == 0 || (row.numbers.status == 7 && is_run(row))
}

/// All of a disk that is left, as far as it comes before the swap area: the image with zeros behind it, but for some pieces.
fn whole_differs(
    alloc: Global,
    disk: &Disk,
    swap_at: usize,
    image: &[u8],
    left: &[u8],
) -> Result<Option<Difference>, AllocError> {
    if !disk.left_all {
        return Ok(None);
    }
    let mut whole = vec![in alloc; 0; DISK_BYTES]?;
    put(&mut whole, &[(0, image)]);
    for piece in disk.left.iter() {
        put(&mut whole, &[(piece.at, piece.bytes.as_slice())]);
    }
    let wanted = before_swap(&whole, swap_at);
    compared(alloc, "final disk", wanted, before_swap(left, swap_at))
}

/// Pieces of a disk that is left.
fn pieces_differ(
    alloc: Global,
    disk: &Disk,
    left: &[u8],
) -> Result<Option<Difference>, AllocError> {
    for piece in disk.left.iter() {
        if !have(left, &[(piece.at, piece.bytes.as_slice())]) {
            let came = left.get(piece.at..).unwrap_or(b"".as_slice());
            let came = came.get(..piece.bytes.len()).unwrap_or(came);
            return compared(alloc, "piece of the final disk", &piece.bytes, came);
        }
    }
    Ok(None)
}

/// What `check` reports of a disk that is left.
fn check_differs(
    alloc: Global,
    disk: &Disk,
    left: &[u8],
) -> Result<Option<Difference>, AllocError> {
    if !disk.has_check {
        return Ok(None);
    }
    let mut host = host_with(alloc, left, b"")?;
    let _ = end_over(alloc, "check image", &mut host)?;
    compared(
        alloc,
        "check of the final disk",
        &disk.check,
        host.bytes(OutPort::Report),
    )
}

/// A disk that is left, and where its swap area begins.
fn disk_differs(
    alloc: Global,
    disk: &Disk,
    swap_at: usize,
    image: &[u8],
    left: &[u8],
) -> Result<Option<Difference>, AllocError> {
    let found = whole_differs(alloc, disk, swap_at, image, left)?;
    if found.is_some() {
        return Ok(found);
    }
    let found = pieces_differ(alloc, disk, left)?;
    if found.is_some() {
        return Ok(found);
    }
    check_differs(alloc, disk, left)
}

/// The disks that are left: nothing where the run leaves none. The second one has no swap area.
fn disks_differ(
    alloc: Global,
    row: &Row,
    image: &[u8],
    second: &[u8],
    host: &MemHost,
) -> Result<Option<Difference>, AllocError> {
    let left = host.bytes(OutPort::Final);
    let left_second = host.bytes(OutPort::Second);
    if !leaves_disk(row) {
        let left = if left.is_empty() { left_second } else { left };
        return compared(alloc, "final disk", b"", left.get(..16).unwrap_or(left));
    }
    let found = disk_differs(alloc, &row.disk, SWAP_AT, image, left)?;
    if found.is_some() || !row.has_second {
        return Ok(found);
    }
    disk_differs(alloc, &row.second, DISK_BYTES, second, left_second)
}

/// What `audit` reports of the log.
fn audit_differs(alloc: Global, row: &Row, log: &[u8]) -> Result<Option<Difference>, AllocError> {
    if !row.has_audit {
        return Ok(None);
    }
    let mut host = host_with(alloc, b"", log)?;
    let _ = end_over(alloc, "audit script", &mut host)?;
    compared(
        alloc,
        "audit of the log",
        &row.audit,
        host.bytes(OutPort::Report),
    )
}

/// What the terminal of a line shows: 0 is line 1.
fn shown_on(host: &MemHost, line: usize) -> &[u8] {
    match line {
        0 => host.bytes(OutPort::Line(1)),
        1 => host.bytes(OutPort::Line(2)),
        2 => host.bytes(OutPort::Line(3)),
        3 => host.bytes(OutPort::Line(4)),
        4 => host.bytes(OutPort::Line(5)),
        5 => host.bytes(OutPort::Line(6)),
        _ => host.bytes(OutPort::Line(7)),
    }
}

/// What the terminals of the lines 1 to 7 show.
fn lines_differ(
    alloc: Global,
    row: &Row,
    host: &MemHost,
) -> Result<Option<Difference>, AllocError> {
    for (line, wanted) in row.lines.iter().enumerate() {
        let found = compared(alloc, "terminal of a line", wanted, shown_on(host, line))?;
        if found.is_some() {
            return Ok(found);
        }
    }
    Ok(None)
}

/// The status, the report and the terminals.
fn end_differs(
    alloc: Global,
    row: &Row,
    status: Status,
    host: &MemHost,
) -> Result<Option<Difference>, AllocError> {
    let wanted = row.numbers.status;
    let came = status.number();
    if usize::from(came) != wanted {
        let wanted = format!(in alloc; "{wanted}")?;
        let came = format!(in alloc; "{came}")?;
        return compared(alloc, "status", wanted.as_bytes(), came.as_bytes());
    }
    let report = compared(alloc, "report", &row.report, host.bytes(OutPort::Report))?;
    if report.is_some() {
        return Ok(report);
    }
    let shown = shown_differs(alloc, row, host.bytes(OutPort::Term))?;
    if shown.is_some() {
        return Ok(shown);
    }
    lines_differ(alloc, row, host)
}

/// What the console shows, or how many bytes.
fn shown_differs(alloc: Global, row: &Row, term: &[u8]) -> Result<Option<Difference>, AllocError> {
    match row.numbers.shown {
        None => compared(alloc, "terminal", &row.term, term),
        Some(shown) => {
            let wanted = format!(in alloc; "{shown}")?;
            let count = term.len();
            let came = format!(in alloc; "{count}")?;
            compared(
                alloc,
                "bytes of the terminal",
                wanted.as_bytes(),
                came.as_bytes(),
            )
        }
    }
}

/// The first thing in which the row's run comes out otherwise than the row says.
pub fn first_difference(alloc: Global, row: &Row) -> Result<Option<Difference>, AllocError> {
    let image = image_of(alloc, row)?;
    let second = plain_image(alloc, &row.second)?;
    let mut host = host_of(alloc, row, &image, &second)?;
    let words = words_of(alloc, row)?;
    let status = end_over(alloc, words.as_str(), &mut host)?;
    let end = end_differs(alloc, row, status, &host)?;
    if end.is_some() {
        return Ok(end);
    }
    let log = log_differs(alloc, row, &image, host.bytes(OutPort::Log))?;
    if log.is_some() {
        return Ok(log);
    }
    let disk = disks_differ(alloc, row, &image, &second, &host)?;
    if disk.is_some() {
        return Ok(disk);
    }
    audit_differs(alloc, row, host.bytes(OutPort::Log))
}
