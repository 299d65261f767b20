//! A row: a whole run with what it must come to, as its file says line by line. docs/rows.md has the language.
use crate::disk::Disk;
use crate::fault::Fault;
use crate::text::{address, halves, number, program_bytes, push_line, push_report, push_words};
use std::alloc::Global;

/// How many lines a machine has beside the console, which is line 0.
pub const LINES: usize = 7;

/// What the lines that follow are part of.
#[derive(Clone, Copy)]
pub enum Section {
    None,
    Before,
    Init,
    After,
    Over,
    File,
    Disk,
    Left,
    Script,
    Term,
    /// What the terminal of a line shows: 0 is line 1.
    Line(usize),
    Log,
}

/// The numbers of a row.
#[derive(Clone, Copy)]
pub struct Numbers {
    /// Clicks of core.
    pub core: usize,
    /// Clicks of the image of `/etc/init`, of which `booted` in the log tells.
    pub clicks: usize,
    /// How many bytes the program has at least, filled up with zeros.
    pub fill: usize,
    /// The exit status.
    pub status: usize,
    /// How many bytes the terminal shows, where the row doesn't have them.
    pub shown: Option<usize>,
}

/// A row, with what its frames say.
#[derive(Drop)]
pub struct Row {
    alloc: Global,
    pub numbers: Numbers,
    /// The program that takes the place of `/etc/init`, in three parts; it has one where `has_program`.
    pub before: Vec<u8>,
    pub init: Vec<u8>,
    pub after: Vec<u8>,
    pub has_program: bool,
    pub disk: Disk,
    /// The second disk, of which the lines behind `second` tell, where it has one.
    pub second: Disk,
    pub has_second: bool,
    pub script: Vec<u8>,
    /// The words of the command, where they aren't those of `run`.
    pub command: Option<String>,
    pub term: Vec<u8>,
    /// What the terminals of the lines 1 to 7 show.
    pub lines: [Vec<u8>; LINES],
    pub log: Vec<u8>,
    pub has_log: bool,
    /// Whether the log begins with the lines that each run has until `/etc/init` is executed, and whether the row has its end
    /// alone.
    pub is_booted: bool,
    pub is_end: bool,
    pub report: Vec<u8>,
    /// What `audit` reports of the log.
    pub audit: Vec<u8>,
    pub has_audit: bool,
}

// Nothing is shown on any of them.
fn no_lines(alloc: Global) -> [Vec<u8>; LINES] {
    [
        Vec::new(alloc),
        Vec::new(alloc),
        Vec::new(alloc),
        Vec::new(alloc),
        Vec::new(alloc),
        Vec::new(alloc),
        Vec::new(alloc),
    ]
}

impl Row {
    pub fn new(alloc: Global) -> Row {
        let numbers = Numbers {
            core: 1200,
            clicks: 37,
            fill: 0,
            status: 0,
            shown: None,
        };
        Row {
            alloc,
            numbers,
            before: Vec::new(alloc),
            init: Vec::new(alloc),
            after: Vec::new(alloc),
            has_program: false,
            disk: Disk::new(alloc),
            second: Disk::new(alloc),
            has_second: false,
            script: Vec::new(alloc),
            command: None,
            term: Vec::new(alloc),
            lines: no_lines(alloc),
            log: Vec::new(alloc),
            has_log: false,
            is_booted: false,
            is_end: false,
            report: Vec::new(alloc),
            audit: Vec::new(alloc),
            has_audit: false,
        }
    }

    /// A line of the file, in a section; the section of the next line.
    pub fn take(&mut self, section: Section, line: &str) -> Result<Section, Fault> {
        if line.is_empty() || line.starts_with('#') {
            return Ok(section);
        }
        if line.starts_with(' ') {
            self.take_content(section, line.trim())?;
            return Ok(section);
        }
        match line.split_once(' ') {
            None => self.open(line),
            Some((name, rest)) => self.take_directive(name, rest.trim()),
        }
    }

    /// A line that is a name alone begins a section, but for the command of no words and for the second disk.
    fn open(&mut self, name: &str) -> Result<Section, Fault> {
        if name == "command" {
            self.command = Some(String::new(self.alloc));
            return Ok(Section::None);
        }
        if name == "second" {
            self.has_second = true;
            return Ok(Section::None);
        }
        let section = match name {
            "before" => Section::Before,
            "init" => Section::Init,
            "after" => Section::After,
            "over" => Section::Over,
            "disk" => Section::Disk,
            "left" => Section::Left,
            "script" => Section::Script,
            "term" => Section::Term,
            "log" => Section::Log,
            _ => return Err(Fault::Wrong("no such section")),
        };
        match section {
            Section::Before | Section::Init | Section::After => self.has_program = true,
            Section::Script => self.script.clear(),
            Section::Term => self.term.clear(),
            Section::Log => self.has_log = true,
            _ => {}
        }
        Ok(section)
    }

    /// The terminal of a line begins.
    fn open_line(&mut self, number: usize) -> Result<Section, Fault> {
        let line = number.wrapping_sub(1);
        match self.lines.get_mut(line) {
            Some(term) => term.clear(),
            None => return Err(Fault::Wrong("a line from 1 to 7 is wanted")),
        }
        Ok(Section::Line(line))
    }

    /// A line that says one thing.
    fn take_directive(&mut self, name: &str, rest: &str) -> Result<Section, Fault> {
        match name {
            "core" => self.numbers.core = number(rest)?,
            "clicks" => self.numbers.clicks = number(rest)?,
            "fill" => self.numbers.fill = number(rest)?,
            "status" => self.numbers.status = number(rest)?,
            "shown" => self.numbers.shown = Some(number(rest)?),
            "term" => return self.open_line(number(rest)?),
            "told" => push_words(&mut self.term, rest)?,
            "command" => self.command = Some(String::from_str(self.alloc, rest)?),
            "report" => push_report(&mut self.report, rest)?,
            "audit" => {
                self.has_audit = true;
                push_report(&mut self.audit, rest)?;
            }
            _ if self.has_second => return self.second.take_directive(name, rest),
            _ => return self.disk.take_directive(name, rest),
        }
        Ok(Section::None)
    }

    /// A line of a section.
    fn take_content(&mut self, section: Section, text: &str) -> Result<(), Fault> {
        match section {
            Section::Before => take_words(self.alloc, &mut self.before, 0, text),
            Section::Init => { take_words(self.alloc, &mut self.init, self.before.len(), text) }
            Section::After => take_words(self.alloc, &mut self.after, 0, text),
            Section::Over => self.disk.take_over(text),
            Section::Script => push_line(self.alloc, &mut self.script, text),
            Section::Term => push_line(self.alloc, &mut self.term, text),
            Section::Line(line) => self.take_shown(line, text),
            Section::Log => self.take_log(text),
            _ if self.has_second => self.second.take_content(section, text),
            _ => self.disk.take_content(section, text),
        }
    }

    /// What the terminal of a line shows.
    fn take_shown(&mut self, line: usize, text: &str) -> Result<(), Fault> {
        match self.lines.get_mut(line) {
            Some(term) => push_line(self.alloc, term, text),
            None => Err(Fault::Wrong("a line of no section")),
        }
    }

    fn take_log(&mut self, text: &str) -> Result<(), Fault> {
        let is_booted = text == "booted";
        if !is_booted && text != ".." {
            return push_line(self.alloc, &mut self.log, text);
        }
        if !self.log.is_empty() {
            return Err(Fault::Wrong("this is the first line of a log"));
        }
        self.is_booted = is_booted;
        self.is_end = !is_booted;
        Ok(())
    }
}

/// A line of a program, whose words so far begin at `start`: it must say the address at which it stands.
fn take_words(alloc: Global, out: &mut Vec<u8>, start: usize, text: &str) -> Result<(), Fault> {
    let (at, words) = halves(text)?;
    if address(at)? != start.saturating_add(out.len()) {
        return Err(Fault::Wrong("the words stand at another address"));
    }
    out.extend_from_slice(&program_bytes(alloc, words)?)?;
    Ok(())
}
