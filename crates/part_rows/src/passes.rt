//! Passes of process 0, by hand from `sched` of Lions' Commentary, `slp.c`: who comes in, who goes out for it, and when the
//! swapper sleeps. A scene is what fifty slots have, placed by first fit in their order, and the lines that its pass leaves.
ghost use Rattle.std.specs.Prelude.{◌≡◌, ◌≤◌};
ghost use Rattle.std.proofs.Props.{props};
ghost use Rattle.image_keep.specs.Kept.{no_users};
ghost use Rattle.pick_rules.specs.Table.{is_empty};
ghost use Rattle.swap_sched.specs.Match.{Matches};
ghost use Rattle.part_rows.specs.Alive.{lives};

use crate::tell;
use image_keep::Images;
use pick_rules::Stat::{Ready, Sleeping, Waiting};
use pick_rules::{Stat, Table, TableRow};
use seg_regs::Proto;
use std::alloc::{AllocError, Global};
use swap_sched::pass;
use v6_base::{Chan, Entry, PanicKind, Slot, Tape};

/// A table and images that are of the same slots, which have no text.
#[derive(Drop)]
struct Scene {
    table: Table,
    images: Images,
    ghost matching: { Matches table images.kept } by { Prim.hlevel props },
    ghost plain: { images.kept.users ≡ no_users },
}

const NOBODY: TableRow = TableRow {
    stat: Stat::Empty,
    pri: 0,
    cpu: 0,
    time: 0,
    nice: 0,
    size: 0,
    text: None,
    place: None,
    channel: None,
    calling: false,
};

/// Whether there is a process, which has not ended.
fn lives(stat: Stat) -> bool
    ensures { result ≡ lives stat }
{
    match stat {
        Stat::Empty | Stat::Zombie => false,
        Stat::Sleeping | Stat::Waiting | Stat::Ready => true,
    }
}

/// Whether there is no process.
fn is_free(stat: Stat) -> bool
    ensures { result ≡ is_empty stat }
{
    match stat {
        Stat::Empty => true,
        _ => false,
    }
}

#[tactic(auto, using(crate::proofs::SceneLemmas::run_matches))]
impl Scene {
    /// Slots without an image, beside a core of so many clicks; the swapper runs.
    fn new(alloc: Global, core: u16) -> Result<Scene, AllocError>
        requires least { 64 ≤ core }
        requires most { core ≤ 3968 }
    {
        let swap = vec![in alloc; 0u8; 446464]?;
        let images = Images::new(alloc, core, &swap)?;
        let mut table = Table::new(0);
        table.rows[1] = NOBODY;
        Ok(Scene { table, images })
    }

    /// An image of so many clicks of data in an empty slot, which does this, and has been where it is for so many seconds.
    fn put(&mut self, s: Slot, stat: Stat, time: u8, data: u16) -> Option<()> {
        let proto = Proto::make(0, data, 0, 2048).ok()?;
        if s == 0 || 50 <= s || !lives(stat) || !is_free(self.table.rows[s as usize].stat) {
            return None;
        }
        let _ = self.images.place(s);
        match self.images.replace(s, proto, None) {
            Ok(place) => {
                self.table.rows[s as usize] = TableRow {
                    stat,
                    time,
                    size: 16 + proto.data_size + proto.stack_size,
                    place: Some(place),
                    ..NOBODY
                };
                Some(())
            }
            Err(_) => None,
        }
    }

    /// The swapper's pass.
    fn pass(&mut self, tape: &mut Tape) -> Result<(), PanicKind> {
        self.table.running = Some(0);
        pass(&mut self.table, &mut self.images, tape)
    }
}

type Slots = &'static [(Slot, Stat, u8, u16)];

/// A line of a pass: this slot goes out to a block, comes in at a click, or the swapper sleeps, for work or for core.
#[derive(Clone, Copy)]
enum Line {
    Goes(Slot, u16),
    Comes(Slot, u16),
    Work,
    Core,
}

use Line::{Comes, Core, Goes, Work};

fn sleeps(chan: Chan) -> Entry {
    Entry::Sleep {
        slot: 0,
        pri: -100,
        chan,
    }
}

fn entry(line: Line) -> Entry {
    match line {
        Goes(slot, block) => Entry::SwapOut { slot, block },
        Comes(slot, at) => Entry::SwapIn { slot, at },
        Work => sleeps(Chan::RunOut),
        Core => sleeps(Chan::RunIn),
    }
}

fn are_lines(entries: &[Entry], lines: &[Line]) -> bool {
    entries.len() == lines.len()
        && entries
            .iter()
            .zip(lines.iter())
            .all(|(e, l)| *e == entry(*l))
}

/// The clicks of core, the slots, and the lines of the pass.
static PASSES: [(u16, Slots, &[Line]); 15] = [
    (64, &[(1, Ready, 9, 21)], &[Work]),
    (
        64,
        &[(1, Ready, 3, 21), (2, Ready, 3, 21)],
        &[Goes(1, 4005), Comes(2, 1), Core],
    ),
    (64, &[(1, Ready, 9, 21), (2, Ready, 2, 21)], &[Core]),
    (64, &[(1, Ready, 1, 21), (2, Ready, 9, 21)], &[Core]),
    (
        64,
        &[(1, Ready, 2, 21), (2, Ready, 9, 21)],
        &[Goes(1, 4005), Comes(2, 1), Core],
    ),
    (
        100,
        &[(1, Ready, 5, 14), (2, Sleeping, 2, 24), (3, Ready, 4, 44)],
        &[
            Goes(1, 4008),
            Goes(2, 4012),
            Comes(3, 1),
            Comes(1, 61),
            Work,
        ],
    ),
    (
        64,
        &[
            (1, Ready, 9, 0),
            (2, Waiting, 0, 8),
            (3, Waiting, 9, 8),
            (4, Ready, 0, 14),
        ],
        &[Goes(2, 4004), Goes(3, 4007), Comes(4, 17), Work],
    ),
    (
        64,
        &[(1, Ready, 5, 14), (2, Ready, 5, 14), (3, Ready, 3, 14)],
        &[Goes(1, 4004), Comes(3, 1), Core],
    ),
    // The lowest of equals comes in, and its time begins: it doesn't go out for the other.
    (
        64,
        &[(1, Ready, 2, 21), (2, Ready, 4, 21), (3, Ready, 4, 21)],
        &[Goes(1, 4010), Comes(2, 1), Core],
    ),
    // Neither the lowest nor the smallest goes.
    (
        100,
        &[
            (1, Ready, 3, 4),
            (2, Ready, 7, 24),
            (3, Sleeping, 5, 14),
            (4, Ready, 4, 24),
        ],
        &[Goes(2, 4005), Comes(4, 21), Core],
    ),
    // Of those that wait the lowest goes, which is the smaller.
    (
        64,
        &[(1, Waiting, 0, 0), (2, Waiting, 0, 16), (3, Ready, 0, 8)],
        &[Goes(1, 4003), Goes(2, 4005), Comes(3, 1), Work],
    ),
    // A hole of 30 clicks for 31, then one of 39 for 40.
    (
        100,
        &[(1, Ready, 2, 14), (2, Ready, 5, 24), (3, Ready, 9, 15)],
        &[Goes(2, 4004), Comes(3, 31), Core],
    ),
    // Images that take all of core.
    (
        64,
        &[(1, Ready, 2, 48), (2, Ready, 3, 48)],
        &[Goes(1, 4008), Comes(2, 1), Core],
    ),
    // Slot 1 comes back into the first of two holes, and not into that which it fills.
    (
        96,
        &[
            (1, Ready, 9, 0),
            (2, Ready, 8, 32),
            (3, Ready, 0, 0),
            (4, Ready, 7, 28),
        ],
        &[
            Goes(1, 4006),
            Goes(2, 4008),
            Comes(4, 1),
            Comes(1, 45),
            Core,
        ],
    ),
    // The blocks of who has come in are free for who goes out after it.
    (
        64,
        &[
            (1, Waiting, 0, 32),
            (2, Waiting, 0, 0),
            (3, Ready, 0, 32),
            (4, Ready, 0, 0),
        ],
        &[
            Goes(1, 4008),
            Comes(3, 1),
            Goes(2, 4000),
            Comes(4, 49),
            Work,
        ],
    ),
];

fn holds(alloc: Global, row: (u16, Slots, &[Line])) -> Option<bool> {
    let (core, slots, lines) = row;
    if core < 64 || 3968 < core {
        return None;
    }
    let mut scene = Scene::new(alloc, core).ok()?;
    for (s, stat, time, data) in slots {
        scene.put(*s, *stat, *time, *data)?;
    }
    let mut tape = Tape::new(alloc, 200, 1).ok()?;
    scene.pass(&mut tape).ok()?;
    Some(are_lines(tape.entries(), lines))
}

#[test]
fn passes_are_by_time(rt: HostRuntime) {
    for (n, row) in PASSES.iter().enumerate() {
        let found = holds(rt.alloc(), *row);
        tell::plain_row(&rt, n, found == Some(true));
    }
}
