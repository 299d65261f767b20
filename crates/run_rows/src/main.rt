//! Runs the rows of whole runs, which are files: docs/rows.md has their language. It prints `ok NAME` for each that holds, and
//! otherwise the first thing in which its run comes out otherwise. A row that can't be read doesn't hold.
#![tactic(auto)]

mod disk;
mod fault;
mod image;
mod judge;
mod row;
mod text;

use crate::fault::Fault;
use crate::judge::{Difference, first_difference};
use crate::row::{Row, Section};
use std::alloc::{AllocError, Global};
use std::process::ExitCode;
use std::rt::Files;
use std::{fs, io};

/// Why a row can't be judged.
#[derive(Drop)]
enum Unjudged {
    Io(io::Error),
    Wrong(String),
}

impl From<io::Error> for Unjudged {
    fn from(error: io::Error) -> Unjudged {
        Unjudged::Io(error)
    }
}

impl From<AllocError> for Unjudged {
    fn from(error: AllocError) -> Unjudged {
        Unjudged::Io(io::Error::from(error))
    }
}

/// A line of a file, in a section; the section of the next line. A fault names the file and the line.
fn take_line(
    alloc: Global,
    row: &mut Row,
    section: Section,
    (path, number): (&str, usize),
    line: &str,
) -> Result<Section, Unjudged> {
    match row.take(section, line) {
        Ok(next) => Ok(next),
        Err(Fault::Memory) => Err(Unjudged::from(AllocError)),
        Err(Fault::Wrong(what)) => Err(Unjudged::Wrong(format!(in alloc;
            "{path}: line {number}: {what}"
        )?)),
    }
}

/// The lines of a frame, which a row has as its own.
fn take_frame<R: Files + AllocGlobal>(
    rt: &R,
    row: &mut Row,
    name: &str,
) -> Result<Section, Unjudged> {
    let alloc = rt.alloc();
    let path = format!(in alloc; "frames/{name}")?;
    let text = fs::read_to_string(rt, path.as_str())?;
    let mut section = Section::None;
    for (number, line) in text.lines().enumerate() {
        let place = (path.as_str(), number.saturating_add(1));
        section = take_line(alloc, row, section, place, line)?;
    }
    Ok(Section::None)
}

/// A row of a name.
fn read_row<R: Files + AllocGlobal>(rt: &R, name: &str) -> Result<Row, Unjudged> {
    let alloc = rt.alloc();
    let path = format!(in alloc; "rows/{name}")?;
    let text = fs::read_to_string(rt, path.as_str())?;
    let mut row = Row::new(alloc);
    let mut section = Section::None;
    for (number, line) in text.lines().enumerate() {
        let place = (path.as_str(), number.saturating_add(1));
        section = match line.strip_prefix("frame ") {
            Some(frame) => take_frame(rt, &mut row, frame)?,
            None => take_line(alloc, &mut row, section, place, line)?,
        };
    }
    Ok(row)
}

fn judged<R: Files + AllocGlobal>(rt: &R, name: &str) -> Result<Option<Difference>, Unjudged> {
    let row = read_row(rt, name)?;
    Ok(first_difference(rt.alloc(), &row)?)
}

/// The first place at which bytes differ.
fn first_place(wanted: &[u8], came: &[u8]) -> usize {
    for (at, (a, b)) in wanted.iter().zip(came.iter()).enumerate() {
        if a != b {
            return at;
        }
    }
    wanted.len().min(came.len())
}

fn push_shown(alloc: Global, out: &mut String, byte: u8) -> Result<(), AllocError> {
    match byte {
        b'\n' => out.push_str("\\n"),
        b'\r' => out.push_str("\\r"),
        b' '..=b'~' => out.push(char::from(byte)),
        _ => out.push_str(format!(in alloc; "\\{byte:03o}")?.as_str()),
    }
}

/// Bytes about a place, as a row file has them.
fn shown(alloc: Global, bytes: &[u8], at: usize) -> Result<String, AllocError> {
    let mut out = String::new(alloc);
    for byte in bytes.iter().skip(at.saturating_sub(24)).take(64) {
        push_shown(alloc, &mut out, *byte)?;
    }
    Ok(out)
}

fn complain<R: AllocGlobal + Eprint>(
    rt: &R,
    name: &str,
    difference: &Difference,
) -> io::Result<()> {
    let alloc = rt.alloc();
    let what = difference.what;
    let at = first_place(&difference.wanted, &difference.came);
    let wanted = shown(alloc, &difference.wanted, at)?;
    let came = shown(alloc, &difference.came, at)?;
    eprintln!(rt;
        "{name}: {what}: they differ at byte {at}: \"{wanted}\" is wanted, and \"{came}\" came"
    )
}

/// Runs a row, and prints whether it holds.
fn tell<R: Files + AllocGlobal + Print + Eprint>(rt: &R, name: &str) -> io::Result<bool> {
    match judged(rt, name) {
        Ok(None) => {
            println!(rt; "ok {name}")?;
            return Ok(true);
        }
        Ok(Some(difference)) => complain(rt, name, &difference)?,
        Err(Unjudged::Wrong(what)) => eprintln!(rt; "{name}: {what}")?,
        Err(Unjudged::Io(error)) => eprintln!(rt; "{name}: {error}")?,
    }
    println!(rt; "no {name}")?;
    Ok(false)
}

/// The names in a folder, in order.
fn names_in<R: Files + AllocGlobal + Clone + Drop>(
    rt: &R,
    folder: &str,
) -> io::Result<Vec<String>> {
    let mut names = Vec::new(rt.alloc());
    for entry in fs::read_dir(rt, folder)? {
        names.push(String::from_str(rt.alloc(), entry?.file_name())?)?;
    }
    names.sort()?;
    Ok(names)
}

fn tell_family<R: Files + AllocGlobal + Print + Eprint + Clone + Drop>(
    rt: &R,
    family: &str,
) -> io::Result<bool> {
    let folder = format!(in rt.alloc(); "rows/{family}")?;
    let mut all_hold = true;
    for name in names_in(rt, folder.as_str())?.iter() {
        let name = name.as_str();
        let row = format!(in rt.alloc(); "{family}/{name}")?;
        all_hold = tell(rt, row.as_str())? && all_hold;
    }
    Ok(all_hold)
}

/// Whether all rows hold.
fn tell_all<R: Files + AllocGlobal + Print + Eprint + Clone + Drop>(rt: &R) -> io::Result<bool> {
    let mut all_hold = true;
    for family in names_in(rt, "rows")?.iter() {
        all_hold = tell_family(rt, family.as_str())? && all_hold;
    }
    Ok(all_hold)
}

fn main(rt: HostRuntime) -> ExitCode {
    match tell_all(&rt) {
        Ok(true) => ExitCode::SUCCESS,
        Ok(false) => ExitCode::FAILURE,
        Err(error) => {
            let _ = eprintln!(rt; "run_rows: {error}");
            ExitCode::FAILURE
        }
    }
}
