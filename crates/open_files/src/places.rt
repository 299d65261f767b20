//! Which entries and numbers are free.
ghost use Rattle.std.specs.Prelude.{◌≡◌, ◌<◌, IfSome, is_some, length};
ghost use Rattle.open_files.specs.Files.{file_at, free_number, free_entry};

use crate::file::OpenFile;

/// The lowest number of a process that names no file.
pub(crate) fn free_number(mine: &[u8; 15]) -> Option<usize>
    ensures first { result ≡ free_number mine.now }
    ensures low { IfSome result (λ fd. fd < 15) }
{
    mine.iter().position(|number| *number == 0)
}

/// The lowest entry of the table that is free.
pub(crate) fn free_entry(files: &[Option<OpenFile>; 100]) -> Option<usize>
    ensures first { result ≡ free_entry files.now }
    ensures low { IfSome result (λ entry. entry < 100) }
{
    files.iter().position(|file| file.is_none())
}

/// Whether an entry is one of the table and in use.
pub(crate) fn is_used(files: &[Option<OpenFile>; 100], entry: u8) -> bool
    ensures used { result ≡ is_some (file_at files.now entry) }
    ensures long { length files.now ≡ 100 }
{
    entry < 100 && files[entry as usize].is_some()
}
