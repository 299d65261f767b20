//! The table of shared texts: `xalloc`, `xfree` and `xccdec` of `text.c` in Lions' Commentary.
ghost use Rattle.text_tab.specs.Table.{IsUsed};

use crate::images::texts::Ask::{Has, Is, Joins, Leaves, Loads, Stands, Unloads};
use crate::images::texts::Step::{Attaches, Fills, HasNone, Of};
use crate::tell;
use std::process::Abort;
use text_tab::Left::{Gone, Kept, Used};
use text_tab::{Full, Left, TextId, TextRow, Texts};

/// What is asked of the table, and what must come of it. Texts are told by their inodes.
#[derive(Clone, Copy)]
enum Step {
    /// An inode gets a text of so many clicks, with its copy from a block on: in this entry, or `None` where the table
    /// is full.
    Attaches(u16, u16, u16, Option<TextId>),
    /// Texts of so many inodes, from the first on, go to as many entries, from the first on.
    Fills(u16, TextId, u8),
    /// An inode has no text.
    HasNone(u16),
    /// An inode has one, and of that.
    Of(u16, Ask),
}

/// What is asked of a text.
#[derive(Clone, Copy)]
enum Ask {
    /// A user more.
    Joins,
    /// A user fewer of a text that is sticky or not, and what becomes of it.
    Leaves(bool, Left),
    /// A user more in core, where the click is the first's.
    Loads(u16),
    /// A user fewer in core, and whether it was the last.
    Unloads(bool),
    /// It has this entry, so many users, and so many in core.
    Is(TextId, u16, u16),
    /// It has so many clicks, and its copy from this block on.
    Has(u16, u16),
    /// It is in core at this click.
    Stands(u16),
}

static ALONE: [Step; 21] = [
    HasNone(7),
    Attaches(7, 10, 4000, Some(0)),
    Of(7, Is(0, 1, 0)),
    Of(7, Has(10, 4000)),
    HasNone(0),
    HasNone(8),
    Of(7, Loads(100)),
    Of(7, Is(0, 1, 1)),
    Of(7, Stands(100)),
    // Where it is in core it stays.
    Of(7, Joins),
    Of(7, Is(0, 2, 1)),
    Of(7, Loads(200)),
    Of(7, Is(0, 2, 2)),
    Of(7, Stands(100)),
    Of(7, Unloads(false)),
    Of(7, Is(0, 2, 1)),
    Of(7, Unloads(true)),
    // It was out of core.
    Of(7, Loads(300)),
    Of(7, Is(0, 2, 1)),
    Of(7, Stands(300)),
    Of(7, Has(10, 4000)),
];

/// The example of docs/manual/texts.md.
static EXAMPLE: [Step; 22] = [
    Attaches(5, 3, 4010, Some(0)),
    Of(5, Is(0, 1, 0)),
    Of(5, Loads(90)),
    Of(5, Is(0, 1, 1)),
    Of(5, Stands(90)),
    Of(5, Joins),
    Of(5, Is(0, 2, 1)),
    Of(5, Loads(90)),
    Of(5, Is(0, 2, 2)),
    Of(5, Unloads(false)),
    Of(5, Is(0, 2, 1)),
    Of(5, Stands(90)),
    Of(5, Unloads(true)),
    Of(5, Leaves(true, Used)),
    Of(5, Is(0, 1, 0)),
    Of(5, Loads(38)),
    Of(5, Stands(38)),
    Of(5, Unloads(true)),
    Of(5, Leaves(true, Kept)),
    Of(5, Is(0, 0, 0)),
    Of(5, Joins),
    Of(5, Is(0, 1, 0)),
];

static LEAVING: [Step; 25] = [
    Attaches(5, 3, 4010, Some(0)),
    Of(5, Joins),
    Of(5, Joins),
    Of(5, Is(0, 3, 0)),
    Of(5, Loads(90)),
    // While others use it, the sticky bit doesn't count, nor who is in core.
    Of(5, Leaves(true, Used)),
    Of(5, Is(0, 2, 1)),
    Of(5, Leaves(false, Used)),
    Of(5, Is(0, 1, 1)),
    Of(5, Stands(90)),
    Of(5, Unloads(true)),
    Of(5, Leaves(false, Gone)),
    HasNone(5),
    Attaches(5, 4, 4020, Some(0)),
    Of(5, Is(0, 1, 0)),
    Of(5, Has(4, 4020)),
    // A sticky text stays, with nobody.
    Of(5, Leaves(true, Kept)),
    Of(5, Is(0, 0, 0)),
    Of(5, Has(4, 4020)),
    Attaches(6, 1, 4030, Some(1)),
    Of(5, Joins),
    Of(5, Is(0, 1, 0)),
    Of(5, Leaves(false, Gone)),
    HasNone(5),
    Of(6, Is(1, 1, 0)),
];

static LOWEST: [Step; 20] = [
    // Each inode is one like any other.
    Attaches(0, 1, 4001, Some(0)),
    Attaches(65535, 2, 4002, Some(1)),
    Attaches(3, 3, 4003, Some(2)),
    Of(65535, Leaves(false, Gone)),
    Of(0, Leaves(false, Gone)),
    HasNone(0),
    HasNone(65535),
    // The lowest free entry, not the next.
    Attaches(4, 4, 4004, Some(0)),
    Attaches(5, 5, 4005, Some(1)),
    Attaches(6, 6, 4006, Some(3)),
    Of(5, Joins),
    Of(3, Loads(70)),
    Of(6, Leaves(true, Kept)),
    Of(4, Is(0, 1, 0)),
    Of(4, Has(4, 4004)),
    Of(5, Is(1, 2, 0)),
    Of(5, Has(5, 4005)),
    Of(3, Is(2, 1, 1)),
    Of(3, Has(3, 4003)),
    Of(6, Is(3, 0, 0)),
];

static FORTY: [Step; 15] = [
    Fills(100, 0, 40),
    Attaches(200, 1, 4000, None),
    HasNone(200),
    HasNone(140),
    Of(139, Is(39, 1, 0)),
    // A text that nobody uses fills its entry all the same.
    Of(117, Leaves(true, Kept)),
    Attaches(200, 1, 4000, None),
    Of(117, Joins),
    Of(117, Leaves(false, Gone)),
    Of(139, Leaves(false, Gone)),
    Attaches(200, 1, 4000, Some(17)),
    Attaches(201, 1, 4000, Some(39)),
    Attaches(202, 1, 4000, None),
    Of(200, Is(17, 1, 0)),
    Of(116, Is(16, 1, 0)),
];

fn attaches(texts: &mut Texts, ino: u16, clicks: u16, block: u16, entry: Option<TextId>) -> bool {
    if texts.find(ino).is_some() {
        return false;
    }
    match texts.attach(ino, clicks, block) {
        Ok(t) => entry == Some(t),
        Err(Full) => entry.is_none(),
    }
}

fn fills(texts: &mut Texts, ino: u16, entry: TextId, count: u8) -> bool {
    for k in 0..count {
        let made = Some(entry.wrapping_add(k));
        if !attaches(texts, ino.wrapping_add(u16::from(k)), 1, 4000, made) {
            return false;
        }
    }
    true
}

fn joins(texts: &mut Texts, t: TextId) -> bool
    requires { IsUsed texts.old t }
{
    let may = texts.row(t).users < u16::MAX;
    if may {
        texts.join(t);
    }
    may
}

fn loads(texts: &mut Texts, t: TextId, at: u16) -> bool
    requires { IsUsed texts.old t }
{
    let may = texts.row(t).loaded < u16::MAX;
    if may {
        texts.load(t, at);
    }
    may
}

fn holds_of(texts: &mut Texts, t: TextId, ask: Ask) -> bool
    requires { IsUsed texts.old t }
{
    let row = *texts.row(t);
    match ask {
        Joins => joins(texts, t),
        Leaves(sticky, left) => row.users > 0 && texts.detach(t, sticky) == left,
        Loads(at) => loads(texts, t, at),
        Unloads(last) => row.loaded > 0 && texts.unload(t) == last,
        Is(entry, users, loaded) => t == entry && row.users == users && row.loaded == loaded,
        Has(clicks, block) => row.clicks == clicks && row.block == block,
        Stands(at) => row.at == at,
    }
}

fn holds(texts: &mut Texts, step: Step) -> bool {
    match step {
        Attaches(ino, clicks, block, entry) => attaches(texts, ino, clicks, block, entry),
        Fills(ino, entry, count) => fills(texts, ino, entry, count),
        HasNone(ino) => texts.find(ino).is_none(),
        Of(ino, ask) => match texts.find(ino) {
            Some(t) => holds_of(texts, t, ask),
            None => false,
        },
    }
}

/// The number of the first step that does not hold, from 0 on.
fn first_failure(steps: &[Step]) -> Option<usize> {
    let mut texts = Texts::new();
    for (k, step) in steps.iter().enumerate() {
        if !holds(&mut texts, *step) {
            return Some(k);
        }
    }
    None
}

/// Tells the first step that does not hold.
fn judge(rt: &impl Abort, steps: &[Step]) {
    tell::step(rt, first_failure(steps));
}

#[test]
fn a_text_has_users(rt: HostRuntime) {
    judge(&rt, &ALONE);
}

#[test]
fn a_sticky_text_is_found_again(rt: HostRuntime) {
    judge(&rt, &EXAMPLE);
}

#[test]
fn a_text_is_left(rt: HostRuntime) {
    judge(&rt, &LEAVING);
}

#[test]
fn the_lowest_entry_is_taken(rt: HostRuntime) {
    judge(&rt, &LOWEST);
}

#[test]
fn forty_texts_are_there(rt: HostRuntime) {
    judge(&rt, &FORTY);
}
