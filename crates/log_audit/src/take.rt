//! What a line that fits does.
ghost use Rattle.std.specs.Prelude.{◌≡◌, ◌<◌};
ghost use Rattle.pick_rules.specs.Ranges.{IsInRange};
ghost use Rattle.pick_rules.specs.Apply.{applied};
ghost use Rattle.pick_rules.specs.Fits.{FitsBoard};
ghost use Rattle.pick_rules.specs.Lawful as log;
ghost use Rattle.pick_rules.specs.Lawful.{IsFirstLine, IsOfExec, FitsStage, seen_after};
ghost use Rattle.log_audit.specs.World.{board_of, board_at, stage_of, seen_of};
ghost use Rattle.log_audit.specs.Sound.{IsWhole, IsStripped, IsSound, IsAfter, IsAfterExec};
ghost use Rattle.log_audit.specs.After.{IsAfterAt};

use crate::world::{Stage, World};
use v6_base::{Entry, Slot};

impl World {
    /// Takes the first line.
    #[tactic(auto, unfolding(pick_rules::specs::Apply::applied))]
    fn begin(&mut self, e: Entry)
        requires first { IsFirstLine e }
        ensures board { board_of self.new ≡ applied (board_of self.old) e }
        ensures runs { self.new.table.running ≡ Some 0 }
        ensures whole { IsWhole self.new }
    {
        match e {
            Entry::Boot { core, time } => *self = World::new(Stage::Booted, core, time),
            _ => unreachable!(),
        }
    }

    /// Takes a line in a slot's exec, after that has given up its place.
    fn apply_exec(&mut self, s: Slot, e: Entry)
        requires slot { s < 50 }
        requires stripped { IsStripped self.old s }
        requires range { IsInRange e }
        requires of_exec { IsOfExec s e }
        requires fits { FitsBoard (board_of self.old) e }
        ensures board { board_of self.new ≡ applied (board_of self.old) e }
        ensures after { IsAfterExec s e self.new }
    {
        match e {
            Entry::Text {
                slot,
                text,
                clicks,
                block,
            } => self.make_text(slot, text, clicks, block),
            Entry::Share { slot, text } => self.share(slot, text),
            Entry::Image {
                slot,
                clicks,
                place,
            } => self.image(slot, clicks, place),
            Entry::Panic(_) => {}
            _ => unreachable!(),
        }
    }

    /// Takes a line where each process has a place.
    #[tactic(auto, unfolding(pick_rules::specs::Fits::FitsBoard))]
    fn apply(&mut self, e: Entry)
        requires whole { IsWhole self.old }
        requires range { IsInRange e }
        requires fits { FitsStage log.Idling (board_of self.old) e }
        ensures board { board_of self.new ≡ applied (board_of self.old) e }
        ensures after { IsAfter e self.new }
    {
        match e {
            Entry::Go(s) => self.go(s),
            Entry::Idle => self.idle(),
            Entry::Trap(s) => self.trap(s),
            Entry::TickUser => self.tick_user(),
            Entry::TickKernel => self.tick_kernel(),
            Entry::TickIdle => self.tick_idle(),
            Entry::Sleep { slot, pri, chan } => self.sleep(slot, pri, chan),
            Entry::Wake(chan) => self.wake(chan),
            Entry::Signal { slot, sig } => self.signal(slot, sig),
            Entry::Nice { slot, nice } => self.nice(slot, nice),
            Entry::Time(time) => self.time(time),
            Entry::Size {
                slot,
                clicks,
                place,
            } => self.grow(slot, clicks, place),
            Entry::SizeKeep { slot, clicks } => self.keep(slot, clicks),
            Entry::Fork { slot, child, place } => self.fork(slot, child, place),
            Entry::Leave { slot, text, sticky } => self.leave(slot, text, sticky),
            Entry::Bare(s) => self.bare(s),
            Entry::SwapIn { slot, at } => self.swap_in(slot, at),
            Entry::SwapOut { slot, block } => self.swap_out(slot, block),
            Entry::Exit { slot, block } => self.exit(slot, block),
            Entry::Reap(s) => self.reap(s),
            Entry::Panic(_) => {}
            Entry::End => {}
            Entry::Boot { .. } | Entry::Text { .. } | Entry::Share { .. } | Entry::Image { .. } =>
                unreachable!(),
        }
    }

    /// Takes the second line.
    #[tactic(auto, unfolding(pick_rules::specs::Apply::applied))]
    fn go_on(&mut self, e: Entry)
        requires whole { IsWhole self.old }
        requires runs { self.old.table.running ≡ Some 0 }
        requires second { FitsStage log.Booted (board_of self.old) e }
        ensures board { board_of self.new ≡ applied (board_of self.old) e }
        ensures after { IsAfter e self.new }
    {
        match e {
            Entry::Sleep { slot, pri, chan } => self.sleep(slot, pri, chan),
            _ => unreachable!(),
        }
    }

    /// Does what a line that fits does, wherever the log has come to.
    fn step(&mut self, e: Entry)
        requires sound { IsSound self.old }
        requires range { IsInRange e }
        requires fits { FitsStage (stage_of self.old.stage) (board_at self.old.stage self.old) e }
        ensures board { board_of self.new ≡ applied (board_of self.old) e }
        ensures after { IsAfterAt self.old.stage e self.new }
    {
        match self.stage {
            Stage::Blank => self.begin(e),
            Stage::Booted => self.go_on(e),
            Stage::Open | Stage::Idling => self.apply(e),
            Stage::Bared(s) => self.apply_exec(s, e),
            Stage::Over => unreachable!(),
        }
    }

    /// Takes a line that fits where the log has come to.
    pub(crate) fn take(&mut self, e: Entry)
        requires sound { IsSound self.old }
        requires range { IsInRange e }
        requires fits { FitsStage (stage_of self.old.stage) (board_at self.old.stage self.old) e }
        ensures seen { seen_of self.new ≡ seen_after (seen_of self.old) e }
        ensures sound { IsSound self.new }
    {
        let stage = self.stage;
        self.step(e);
        self.stage = stage_after(stage, e);
    }
}

/// How far a log has come after a line.
fn stage_after(stage: Stage, e: Entry) -> Stage
    ensures { stage_of result ≡ log.stage_after (stage_of stage) e }
{
    match e {
        Entry::Boot { .. } => Stage::Booted,
        Entry::Idle => Stage::Idling,
        Entry::Bare(s) => Stage::Bared(s),
        Entry::Text { .. } | Entry::Share { .. } => stage,
        Entry::Panic(_) | Entry::End => Stage::Over,
        _ => Stage::Open,
    }
}
