//! The auditor, who takes the lines of a log one after another.
ghost use Rattle.std.specs.Prelude.{◌≡◌, ◌≢◌, ◌↔◌, IsTrue};
ghost use Rattle.pick_rules.specs.Ranges.{IsInRange};
ghost use Rattle.pick_rules.specs.Lawful.{nothing_seen, seen_after, Fits, Over};
ghost use Rattle.log_audit.specs.Judge.{Judges};

use crate::world::{Stage, World};
use log_text::parse;
use std::marker::Model;
use v6_base::Entry;

/// What is said of a line.
#[derive(Clone, Copy, Debug, PartialEq, Eq)]
pub enum Judged {
    /// It fits what the lines before it give, and is taken.
    Good,
    /// It is a line of a log, but doesn't fit.
    Unlawful,
    /// It is no line of a log.
    Bad,
}

/// What the lines that were taken give.
#[derive(Drop)]
pub struct Audit {
    world: World,
}

impl Model for Audit {
    ghost use Rattle.pick_rules.specs.Lawful.{Seen};

    ghost Value = { Seen };

    ghost use Rattle.log_audit.specs.World.{seen_of};
    ghost use Rattle.log_audit.specs.Sound.{IsSound};

    ghost view = { λ a. seen_of a.world };

    ghost invariant = { λ a. IsSound a.world };
}

impl Audit {
    /// No line is taken.
    pub fn new() -> Audit
        ensures { result ≡ nothing_seen }
    {
        Audit {
            world: World::new(Stage::Blank, 64, 0),
        }
    }

    /// Takes an entry where it fits.
    fn judge(&mut self, e: Entry) -> Judged
        requires { IsInRange e }
        ensures good { result ≡ Judged.Good → Fits self.old e × (self.new ≡ seen_after self.old e) }
        ensures unlawful { result ≡ Judged.Unlawful → (Fits self.old e → ⊥) × (self.new ≡ self.old) }
        ensures one { result ≢ Judged.Bad }
    {
        if self.world.fits(e) {
            self.world.take(e);
            Judged::Good
        } else {
            Judged::Unlawful
        }
    }

    /// Judges a line, without its line feed, and takes it where it is good. It is bad exactly where it is no line of a log,
    /// else unlawful exactly where it doesn't fit what the lines taken so far give.
    pub fn line(&mut self, bytes: &[u8]) -> Judged
        ensures { Judges self.old bytes.now result self.new }
    {
        match parse(bytes) {
            None => Judged::Bad,
            Some(e) => self.judge(e),
        }
    }

    /// Whether the last line that was taken ends the log.
    pub fn ended(&self) -> bool
        ensures { IsTrue result ↔ (self.now.stage ≡ Over) }
    {
        matches!(self.world.stage, Stage::Over)
    }
}
