//! What the lines of a log give: the table, the places of texts, and what is free.
ghost use Rattle.std.specs.Prelude.{◌≡◌, ◌≤◌};
ghost use Rattle.log_audit.specs.World.{board_of};
ghost use Rattle.log_audit.specs.Sound.{entry_at, IsWhole};
ghost use Rattle.pick_rules.specs.Board as board;
ghost use Rattle.pick_rules.specs.Board.{blocks};

use map_fit::Holes;
use pick_rules::{LAST_BLOCK, Table};
use v6_base::{SWAP_START, Slot};

/// How many blocks the swap area has.
const SWAP_BLOCKS: u16 = LAST_BLOCK - SWAP_START + 1;

/// The clicks of a u area, which each image begins with.
pub(crate) const LEAST: u16 = 16;

/// The clicks of the largest image, where core has so many.
const MOST: u16 = 2048;

/// A text: its clicks, its users, those of them in core, its click where there are any, and its block.
#[derive(Clone, Copy)]
pub(crate) struct TextRow {
    pub clicks: u16,
    pub users: u8,
    pub loaded: u8,
    pub click: u16,
    pub block: u16,
}

/// How far a log has come.
#[derive(Clone, Copy)]
pub(crate) enum Stage {
    /// It has no line.
    Blank,
    /// It has the line `boot`.
    Booted,
    /// It goes on.
    Open,
    /// The line before is `idle`.
    Idling,
    /// The exec of this slot has given up its place, and has no new image yet.
    Bared(Slot),
    /// The line before is `end` or a panic.
    Over,
}

/// What some lines give.
#[derive(Drop)]
pub(crate) struct World {
    pub stage: Stage,
    pub table: Table,
    pub texts: [Option<TextRow>; 40],
    /// The clicks of core.
    pub core: u16,
    /// What is free of core, and of the swap area.
    pub core_map: Holes,
    pub swap_map: Holes,
}

impl World {
    /// A system that begins, with this many clicks of core, at a time.
    pub(crate) fn new(stage: Stage, core: u16, time: u32) -> World
        requires least { 64 ≤ core }
        requires most { core ≤ 3968 }
        ensures board { board_of result ≡ board.first_board core time }
        ensures stage { result.stage ≡ stage }
        ensures whole { IsWhole result }
    {
        let mut core_map = Holes::new(1, core);
        let _ = core_map.take(17);
        World {
            stage,
            table: Table::new(time),
            texts: [None; 40],
            core,
            core_map,
            swap_map: Holes::new(SWAP_START, SWAP_BLOCKS),
        }
    }

    /// The clicks of the largest image.
    pub(crate) fn limit(&self) -> u16
        ensures { result ≡ board.limit self.entry.now.core }
    {
        self.core.min(MOST)
    }

    /// A text, if it is in use.
    pub(crate) fn text_of(&self, k: u8) -> Option<TextRow>
        ensures { result ≡ entry_at self.entry.now.texts k }
    {
        match self.texts.get(k as usize) {
            Some(text) => *text,
            None => None,
        }
    }
}

/// The blocks that so many clicks take.
pub(crate) fn blocks_of(clicks: u16) -> u16
    requires { clicks ≤ 65528 }
    ensures { result ≡ blocks clicks }
{
    (clicks + 7) / 8
}
