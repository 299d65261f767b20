//! The numbers by which the inodes of two disks are known, and the directory that the second one covers.
ghost use Rattle.std.specs.Prelude.{◌≡◌, ◌+◌, ◌<◌, ◌≤◌, true, Some, None, MatchResult};
ghost use Rattle.mount_tab.specs.Mounted.{MountTable, is_number, key_of, split_of, crossed, has_second, IsCovered};

use std::marker::Model;

/// A directory is covered already.
#[derive(Clone, Copy, Debug, PartialEq, Eq)]
pub struct Busy;

/// No directory is covered.
#[derive(Clone, Copy, Debug, PartialEq, Eq)]
pub struct NotMounted;

/// How many inodes the root's disk and the second one have, and which directory the second one covers: mount(II); `mount` in
/// Lions' Commentary, `systm.h`.
#[derive(Drop)]
pub struct Mounts {
    first: u16,
    /// 0 where there is no second disk.
    second: u16,
    covered: Option<u16>,
}

impl Model for Mounts {
    ghost use Rattle.std.specs.Prelude.{◌+◌, ◌<◌, ◌≤◌, IsSome};
    ghost use Rattle.mount_tab.specs.Mounted.{MountTable};

    ghost Value = { MountTable };

    ghost view = { λ m. record { first = m.first; second = m.second; covered = m.covered } };

    ghost invariant = { λ m. (m.first + m.second ≤ 65535) × (IsSome m.covered → 0 < m.second) };
}

impl Mounts {
    /// Two disks with so many inodes, 0 for a second one that is not there. Nothing is covered.
    pub fn new(first: u16, second: u16) -> Mounts
        requires { first + second ≤ 65535 }
        ensures { result ≡ record { first = first; second = second; covered = None } }
    {
        Mounts {
            first,
            second,
            covered: None,
        }
    }

    /// The key by which the inode of a number of a disk is known.
    pub fn key(&self, dev: u8, ino: u16) -> u16
        requires device { dev < 2 }
        requires number { is_number self.now dev ino ≡ true }
        ensures key { result ≡ key_of self.now dev ino }
        ensures split { split_of self.now result ≡ (dev, ino) }
    {
        if dev == 0 { ino } else { self.first + ino }
    }

    /// The disk and the number of the inode of a key.
    pub fn split(&self, key: u16) -> (u8, u16)
        ensures split { result ≡ split_of self.now key }
        ensures device { result.0 < 2 }
        ensures key { 0 < key → key ≤ self.now.first + self.now.second
            → (is_number self.now result.0 result.1 ≡ true) × (key_of self.now result.0 result.1 ≡ key) }
    {
        if key <= self.first {
            (0, key)
        } else {
            (1, key - self.first)
        }
    }

    /// Whether a disk has an inode of this number.
    pub fn in_range(&self, dev: u8, ino: u16) -> bool
        requires { dev < 2 }
        ensures { result ≡ is_number self.now dev ino }
    {
        let count = if dev == 0 { self.first } else { self.second };
        1 <= ino && ino <= count
    }

    /// The inode that is reached at this key: where it is covered, inode 1 of the second disk.
    pub fn cross(&self, key: u16) -> u16
        ensures { result ≡ crossed self.now key }
    {
        match self.covered {
            Some(covered) if covered == key => self.first + 1,
            _ => key,
        }
    }

    /// Whether there is a second disk.
    pub fn has_second(&self) -> bool
        ensures { result ≡ has_second self.now }
    {
        self.second != 0
    }

    /// The directory that is covered.
    pub fn covered(&self) -> Option<u16>
        ensures { result ≡ self.now.covered }
    {
        self.covered
    }

    /// Covers a directory by the second disk.
    ///
    /// # Errors
    ///
    /// One is covered already.
    pub fn cover(&mut self, key: u16) -> Result<(), Busy>
        requires { has_second self.old ≡ true }
        ensures { MatchResult result
            (λ _. (self.old.covered ≡ None) × (self.new ≡ record self.old { covered = Some key }))
            (λ _. IsCovered self.old × (self.new ≡ self.old)) }
    {
        if self.covered.is_some() {
            return Err(Busy);
        }
        self.covered = Some(key);
        Ok(())
    }

    /// Uncovers the directory that is covered, which is the answer.
    ///
    /// # Errors
    ///
    /// None is covered.
    pub fn uncover(&mut self) -> Result<u16, NotMounted>
        ensures { MatchResult result
            (λ key. (self.old.covered ≡ Some key) × (self.new ≡ record self.old { covered = None }))
            (λ _. (self.old.covered ≡ None) × (self.new ≡ self.old)) }
    {
        match self.covered {
            Some(key) => {
                self.covered = None;
                Ok(key)
            }
            None => Err(NotMounted),
        }
    }
}
