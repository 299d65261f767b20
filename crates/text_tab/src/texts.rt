//! The table of texts.
ghost use Rattle.std.specs.Prelude.{◌≡◌, ◌<◌, ◌↔◌, Some, None, is_none, IfSome, IfOk, OnErr, MatchResult, IsTrue};
ghost use Rattle.text_tab.specs.Table.{AreTexts, IsUsed, IsFree, IsFull, IsLeft, Finds, no_texts, is_of, found, free_entry, row_at, new_text, with_text, with_change, joined, loaded_at, unloaded, left, remaining, detached};

use crate::TextId;
use crate::left::{Full, Left};
use crate::row::TextRow;
use std::marker::Model;

/// The shared texts: forty entries, each with a text or free. No two texts are of one inode. Lions' Commentary,
/// `text.h`.
#[derive(Clone, Copy)]
pub struct Texts {
    rows: [Option<TextRow>; 40],
}

impl Model for Texts {
    ghost use Rattle.std.specs.Prelude.{List, Option};
    ghost use Rattle.text_tab.specs.declared.row.TextRow.{TextRow};
    ghost use Rattle.text_tab.specs.Table.{AreTexts};

    ghost Value = { List (Option TextRow) };

    ghost view = { λ t. t.rows };

    ghost invariant = { λ t. AreTexts t.rows };

    ghost inverse = { λ v. record { rows = v } };
}

/// Whether an entry is the text of an inode.
fn is_of(row: &Option<TextRow>, ino: u16) -> bool
    ensures { result ≡ is_of ino row.now }
{
    match row {
        Some(row) => row.ino == ino,
        None => false,
    }
}

/// The entry of an inode's text.
fn found(rows: &[Option<TextRow>; 40], ino: u16) -> Option<usize>
    ensures text { result ≡ found rows.now ino }
    ensures low { IfSome result (λ t. t < 40) }
{
    rows.iter().position(|row| is_of(row, ino))
}

/// The lowest entry that is free.
fn free_entry(rows: &[Option<TextRow>; 40]) -> Option<usize>
    ensures first { result ≡ free_entry rows.now }
    ensures low { IfSome result (λ t. t < 40) }
{
    rows.iter().position(|row| row.is_none())
}

/// What becomes of a text that one of its users leaves.
fn left(row: TextRow, sticky: bool) -> Left
    ensures { result ≡ left row sticky }
{
    match (row.users, sticky) {
        (1, true) => Left::Kept,
        (1, false) => Left::Gone,
        _ => Left::Used,
    }
}

/// What stands in its entry then.
fn remaining(left: Left, row: TextRow) -> Option<TextRow>
    requires { 0 < row.users }
    ensures { result ≡ remaining left row }
{
    match left {
        Left::Used | Left::Kept => Some(TextRow {
            users: row.users - 1,
            ..row
        }),
        Left::Gone => None,
    }
}

/// What is known of a text when one user more is in core.
fn loaded_at(row: TextRow, at: u16) -> TextRow
    requires { row.loaded < 65535 }
    ensures { result ≡ loaded_at at row }
{
    let at = if row.loaded == 0 { at } else { row.at };
    TextRow {
        loaded: row.loaded + 1,
        at,
        ..row
    }
}

impl Texts {
    /// A table without texts.
    pub fn new() -> Texts
        ensures { result ≡ no_texts }
    {
        Texts { rows: [None; 40] }
    }

    /// The text of an inode. `None` exactly where there is none.
    pub fn find(&self, ino: u16) -> Option<TextId>
        ensures text { result ≡ found self.now ino }
        ensures words { Finds self.now ino result }
        ensures table { AreTexts self.now }
    {
        let t = found(&self.rows, ino)?;
        Some(t as TextId)
    }

    /// Whether forty texts are there, so that none can be made.
    pub fn is_full(&self) -> bool
        ensures { result ≡ is_none (free_entry self.now) }
    {
        free_entry(&self.rows).is_none()
    }

    /// Makes an entry for the text of an inode, of so many clicks, whose copy is in the swap area from a block on. It
    /// has one user, who isn't in core yet. The answer is the lowest entry that was free. Lions' Commentary, `xalloc`
    /// in `text.c`.
    ///
    /// # Errors
    ///
    /// `Full`: exactly where forty texts are there. Nothing has changed then.
    pub fn attach(&mut self, ino: u16, clicks: u16, block: u16) -> Result<TextId, Full>
        requires { found self.old ino ≡ None }
        ensures ok { IfOk result (λ t. (free_entry self.old ≡ Some t)
            × (self.new ≡ with_text self.old t (new_text ino clicks block))) }
        ensures err { OnErr result ((free_entry self.old ≡ None) × (self.new ≡ self.old)) }
        ensures words { MatchResult result (IsFree self.old) (λ _. IsFull self.old) }
    {
        let t = match free_entry(&self.rows) {
            Some(t) => t,
            None => return Err(Full),
        };
        self.rows[t] = Some(TextRow {
            ino,
            clicks,
            users: 1,
            loaded: 0,
            at: 0,
            block,
        });
        Ok(t as TextId)
    }

    /// What is known of a text.
    pub fn row(&self, t: TextId) -> &TextRow
        requires { IsUsed self.now t }
        ensures { result.now ≡ row_at self.now t }
    {
        self.rows[t as usize].as_ref().unwrap()
    }

    /// A text has one user more. Lions' Commentary, `xalloc` and `newproc`.
    pub fn join(&mut self, t: TextId)
        requires used { IsUsed self.old t }
        requires few { (row_at self.old t).users < 65535 }
        ensures { self.new ≡ with_change self.old t joined }
    {
        let mut row = self.rows[t as usize].unwrap();
        row.users += 1;
        self.rows[t as usize] = Some(row);
    }

    /// A text has one user fewer. With none left it stays where it is sticky, and else its entry is free. Lions'
    /// Commentary, `xfree` in `text.c`.
    pub fn detach(&mut self, t: TextId, sticky: bool) -> Left
        requires used { IsUsed self.old t }
        requires users { 0 < (row_at self.old t).users }
        ensures left { result ≡ left (row_at self.old t) sticky }
        ensures words { IsLeft (row_at self.old t) sticky result }
        ensures table { self.new ≡ detached self.old t sticky }
    {
        let row = self.rows[t as usize].unwrap();
        let left = left(row, sticky);
        self.rows[t as usize] = remaining(left, row);
        left
    }

    /// One user more of a text is in core. Where it is the first, the text is at this click from now on; where the text
    /// is in core already it stays where it is. Lions' Commentary, `xalloc` in `text.c` and `sched` in `slp.c`.
    pub fn load(&mut self, t: TextId, at: u16)
        requires used { IsUsed self.old t }
        requires few { (row_at self.old t).loaded < 65535 }
        ensures { self.new ≡ with_change self.old t (loaded_at at) }
    {
        let row = self.rows[t as usize].unwrap();
        self.rows[t as usize] = Some(loaded_at(row, at));
    }

    /// One user fewer of a text is in core. Whether it was the last, so that the text's clicks are free. Lions'
    /// Commentary, `xccdec` in `text.c`.
    pub fn unload(&mut self, t: TextId) -> bool
        requires used { IsUsed self.old t }
        requires loaded { 0 < (row_at self.old t).loaded }
        ensures last { IsTrue result ↔ ((row_at self.old t).loaded ≡ 1) }
        ensures table { self.new ≡ with_change self.old t unloaded }
    {
        let mut row = self.rows[t as usize].unwrap();
        row.loaded -= 1;
        self.rows[t as usize] = Some(row);
        row.loaded == 0
    }
}
