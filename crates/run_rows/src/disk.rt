//! What a row says of a disk: what it is before the run, and what is left of it.
use crate::fault::Fault;
use crate::row::Section;
use crate::text::{address, disk_bytes, halves, number, program_bytes, push_report};
use run_fixtures::TEXT;
use std::alloc::Global;

/// Bytes, and the place on the disk where they stand.
#[derive(Drop)]
pub struct Piece {
    pub at: usize,
    pub bytes: Vec<u8>,
}

/// The file of an inode: the block in which it begins, and its bytes.
#[derive(Drop)]
pub struct File {
    pub inode: usize,
    pub block: usize,
    pub bytes: Vec<u8>,
}

/// A disk, and what a run leaves of it.
#[derive(Drop)]
pub struct Disk {
    alloc: Global,
    /// The bytes of the image, where they aren't those of the disk of `examples/hi`.
    pub size: Option<usize>,
    /// The number of the generator's disk, which then takes its place.
    pub made: Option<usize>,
    pub files: Vec<File>,
    /// What else is put on the disk.
    pub pieces: Vec<Piece>,
    /// What of the disk is left otherwise; `left_all`, where all else of it is as it was.
    pub left: Vec<Piece>,
    pub left_all: bool,
    /// What `check` reports of the disk that is left.
    pub check: Vec<u8>,
    pub has_check: bool,
}

impl Disk {
    pub fn new(alloc: Global) -> Disk {
        Disk {
            alloc,
            size: None,
            made: None,
            files: Vec::new(alloc),
            pieces: Vec::new(alloc),
            left: Vec::new(alloc),
            left_all: false,
            check: Vec::new(alloc),
            has_check: false,
        }
    }

    /// A line that says one thing of the disk; the section of the next line.
    pub fn take_directive(&mut self, name: &str, rest: &str) -> Result<Section, Fault> {
        match name {
            "size" => self.size = Some(number(rest)?),
            "made" => self.made = Some(number(rest)?),
            "file" => return self.begin_file(rest),
            "left" if rest == "all" => self.left_all = true,
            "check" => {
                self.has_check = true;
                push_report(&mut self.check, rest)?;
            }
            _ => return Err(Fault::Wrong("no such line")),
        }
        Ok(Section::None)
    }

    fn begin_file(&mut self, rest: &str) -> Result<Section, Fault> {
        let (inode, block) = halves(rest)?;
        let file = File {
            inode: number(inode)?,
            block: number(block)?,
            bytes: Vec::new(self.alloc),
        };
        self.files.push(file)?;
        Ok(Section::File)
    }

    /// A line of a section that tells of the disk.
    pub fn take_content(&mut self, section: Section, text: &str) -> Result<(), Fault> {
        match section {
            Section::File => self.take_file(text),
            Section::Disk => {
                self.pieces.push(read_piece(self.alloc, text)?)?;
                Ok(())
            }
            Section::Left => {
                self.left.push(read_piece(self.alloc, text)?)?;
                Ok(())
            }
            _ => Err(Fault::Wrong("a line of no section")),
        }
    }

    /// A line that is put over the program that is there.
    pub fn take_over(&mut self, text: &str) -> Result<(), Fault> {
        let (at, words) = halves(text)?;
        let at = TEXT.saturating_add(address(at)?);
        let bytes = program_bytes(self.alloc, words)?;
        self.pieces.push(Piece { at, bytes })?;
        Ok(())
    }

    /// A line of the file that was begun last: the eight words of its header, or words at their address behind the header.
    fn take_file(&mut self, text: &str) -> Result<(), Fault> {
        let Some(file) = self.files.last_mut() else {
            return Err(Fault::Wrong("a line of no file"));
        };
        let (at, words) = halves(text)?;
        let bytes = program_bytes(self.alloc, words)?;
        let is_header = at == "header";
        if is_header && (!file.bytes.is_empty() || bytes.len() != 16) {
            return Err(Fault::Wrong("a header has eight words, and stands first"));
        }
        if !is_header && address(at)?.checked_add(16) != Some(file.bytes.len()) {
            return Err(Fault::Wrong("the words stand at another address"));
        }
        file.bytes.extend_from_slice(&bytes)?;
        Ok(())
    }
}

fn read_piece(alloc: Global, text: &str) -> Result<Piece, Fault> {
    let (at, rest) = halves(text)?;
    let at = number(at)?;
    let bytes = disk_bytes(alloc, rest)?;
    Ok(Piece { at, bytes })
}
