//! The table of open files.
ghost use Rattle.std.specs.Prelude.{◌≡◌, ◌<◌, ◌+◌, length, replicate, None, Some, is_some, IsSome, MatchResult, slice_index, slice_set};
ghost use Rattle.v6_base.specs.declared.errno.Errno.{Errno};
ghost use Rattle.open_files.specs.Files.{file_at, AreOpen, HaveRoom, AreNamed, opened, closed, left, with_more, with_offset, with_change, shared, Adds, Dups, Drops, add_error, dup_error};

use crate::file::{Closed, FileKind, OpenFile};
use crate::places::{free_entry, free_number, is_used};
use std::marker::Model;
use v6_base::Errno;

/// The files that are open: a hundred entries, each in use or free. Lions' Commentary, `file.h`.
///
/// The fifteen numbers of a process, `u_ofile` of `user.h`, are given to its calls as `mine`: 0 where a number names no
/// file, else one more than the entry that it names.
#[derive(Drop)]
pub struct OpenTable {
    files: [Option<OpenFile>; 100],
}

impl Model for OpenTable {
    ghost use Rattle.std.specs.Prelude.{List, Option};
    ghost use Rattle.open_files.specs.declared.file.OpenFile.{OpenFile};
    ghost use Rattle.open_files.specs.Files.{AreNamed};

    ghost Value = { List (Option OpenFile) };

    ghost view = { λ t. t.files };

    ghost invariant = { λ t. AreNamed t.files };
}

/// Counts one number more for an entry.
fn refer_again(files: &mut [Option<OpenFile>; 100], entry: u8)
    requires used { IsSome (file_at files.old entry) }
    requires few { (file : OpenFile) → file_at files.old entry ≡ Some file → file.count < 65535 }
    ensures { files.new ≡ with_change files.old entry (with_more 1) }
{
    let mut file = files[entry as usize].unwrap();
    file.count += 1;
    files[entry as usize] = Some(file);
}

/// Counts each of a process's numbers once more.
fn share_all(files: &mut [Option<OpenFile>; 100], mine: &[u8; 15])
    requires open { AreOpen files.old mine.now }
    requires few { HaveRoom files.old }
    requires named { AreNamed files.old }
    ensures shared { files.new ≡ shared files.old mine.now }
    ensures named { AreNamed files.new }
{
    for number in mine {
        if *number != 0 {
            refer_again(files, *number - 1);
        }
    }
}

/// Lets one number fewer name an entry.
fn let_go(files: &mut [Option<OpenFile>; 100], entry: u8) -> Closed
    requires used { IsSome (file_at files.old entry) }
    requires named { AreNamed files.old }
    ensures closed { (file : OpenFile) → file_at files.old entry ≡ Some file → result ≡ closed file }
    ensures left { files.new ≡ slice_set files.old entry (left result) }
    ensures named { AreNamed files.new }
{
    let mut file = files[entry as usize].unwrap();
    file.count -= 1;
    if file.count == 0 {
        files[entry as usize] = None;
        Closed::Last(file)
    } else {
        files[entry as usize] = Some(file);
        Closed::Still(file)
    }
}

impl OpenTable {
    /// A table with no file open.
    pub fn new() -> OpenTable
        ensures { result ≡ replicate 100 None }
    {
        OpenTable { files: [None; 100] }
    }

    /// Opens a file, at its beginning: under the lowest number that is free, in the lowest entry that is free. The
    /// answer is the number. Lions' Commentary, `falloc` and `ufalloc` in `fio.c`.
    ///
    /// # Errors
    ///
    /// `EMFILE`: the fifteen numbers are used. Else `ENFILE`: the hundred entries are. Nothing has changed then.
    pub fn add(&mut self, mine: &mut [u8; 15], ino: u16, kind: FileKind) -> Result<u8, Errno>
        ensures { MatchResult result
            (λ fd. Adds self.old mine.old (opened ino kind) fd self.new mine.new)
            (λ errno. (add_error self.old mine.old ≡ Some errno) × (self.new ≡ self.old) × (mine.new ≡ mine.old)) }
    {
        let fd = match free_number(mine) {
            Some(fd) => fd,
            None => return Err(Errno::EMFILE),
        };
        let entry = match free_entry(&self.files) {
            Some(entry) => entry,
            None => return Err(Errno::ENFILE),
        };
        self.files[entry] = Some(OpenFile {
            ino,
            kind,
            offset: 0,
            count: 1,
        });
        mine[fd] = entry as u8 + 1;
        Ok(fd as u8)
    }

    /// The entry that a number of a process names. Lions' Commentary, `getf` in `fio.c`.
    ///
    /// # Errors
    ///
    /// `EBADF`: the number is not open. Numbers from 15 on never are.
    pub fn get(&self, mine: &[u8; 15], fd: u16) -> Result<u8, Errno>
        ensures { MatchResult result
            (λ entry. slice_index mine.now fd ≡ entry + 1)
            (λ errno. (errno ≡ Errno.EBADF) × (slice_index mine.now fd ≡ 0)) }
    {
        if fd < 15 && mine[fd as usize] != 0 {
            Ok(mine[fd as usize] - 1)
        } else {
            Err(Errno::EBADF)
        }
    }

    /// Lets the lowest number that is free name what another one names. The answer is the new number. dup(II).
    ///
    /// # Errors
    ///
    /// `EBADF`: the number is not open. Else `EMFILE`: the fifteen numbers are used. Nothing has changed then.
    pub fn dup(&mut self, mine: &mut [u8; 15], fd: u16) -> Result<u8, Errno>
        requires open { AreOpen self.old mine.old }
        requires few { HaveRoom self.old }
        ensures { MatchResult result
            (λ free. Dups self.old mine.old fd free self.new mine.new)
            (λ errno. (dup_error mine.old fd ≡ Some errno) × (self.new ≡ self.old) × (mine.new ≡ mine.old)) }
    {
        let entry = self.get(mine, fd)?;
        let free = match free_number(mine) {
            Some(free) => free,
            None => return Err(Errno::EMFILE),
        };
        refer_again(&mut self.files, entry);
        mine[free] = entry + 1;
        Ok(free as u8)
    }

    /// Lets a number of a process go. The answer has the file with the count that is left: `Last` exactly where that is
    /// 0, and the entry is free then. Lions' Commentary, `close` in `sys2.c` and `closef` in `fio.c`.
    ///
    /// # Errors
    ///
    /// `EBADF`: the number is not open. Nothing has changed then.
    pub fn drop_one(&mut self, mine: &mut [u8; 15], fd: u16) -> Result<Closed, Errno>
        requires open { AreOpen self.old mine.old }
        ensures { MatchResult result
            (λ told. Drops self.old mine.old fd told self.new mine.new)
            (λ errno. (errno ≡ Errno.EBADF) × (slice_index mine.old fd ≡ 0)
            × (self.new ≡ self.old) × (mine.new ≡ mine.old)) }
    {
        let entry = self.get(mine, fd)?;
        let told = let_go(&mut self.files, entry);
        mine[fd as usize] = 0;
        Ok(told)
    }

    /// Counts each of a process's numbers once more, for a child that has the same. Lions' Commentary, `newproc`
    /// in `slp.c`.
    pub fn share(&mut self, mine: &[u8; 15])
        requires open { AreOpen self.old mine.now }
        requires few { HaveRoom self.old }
        ensures { self.new ≡ shared self.old mine.now }
    {
        share_all(&mut self.files, mine);
    }

    /// Whether an entry is below 100 and in use.
    pub fn in_use(&self, entry: u8) -> bool
        ensures used { result ≡ is_some (file_at self.now entry) }
        ensures long { length self.now ≡ 100 }
    {
        is_used(&self.files, entry)
    }

    /// The file of an entry in use.
    pub fn file(&self, entry: u8) -> &OpenFile
        requires used { IsSome (file_at self.now entry) }
        ensures { file_at self.now entry ≡ Some result.now }
    {
        self.files[entry as usize].as_ref().unwrap()
    }

    /// Says where the next read or write of an entry in use begins, in bytes.
    pub fn set_offset(&mut self, entry: u8, offset: u32)
        requires used { IsSome (file_at self.old entry) }
        ensures { self.new ≡ with_change self.old entry (with_offset offset) }
    {
        let mut file = self.files[entry as usize].unwrap();
        file.offset = offset;
        self.files[entry as usize] = Some(file);
    }
}
