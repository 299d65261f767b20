//! The kernel, which takes one event a call.
ghost use Rattle.std.specs.Prelude.{◌≡◌, ◌≢◌, ◌⊎◌, ◌==◌, ◌*◌, ◌<◌, ◌≤◌, ℕ, [], drop, length, slice_index, slice_set, if◌then◌else◌, true, false, None, IsOk, IfOk};
ghost use Rattle.v6_base.specs.Trace.{Took};
ghost use Rattle.v6_base.specs.Tape.{blank};
ghost use Rattle.fs_codec.specs.Disk.{head};
ghost use Rattle.fs_codec.specs.Stands.{StandsFor};
ghost use Rattle.fs_codec.specs.declared.layout.TheConstants.{SWAP_START};
ghost use Rattle.buf_cache.specs.Blocks.{block_at, IsDisk};
ghost use Rattle.fs_nodes.specs.Disks.{OfSecond};
ghost use Rattle.fs_nodes.specs.FileSystem.{AllStand};
ghost use Rattle.fs_tree.specs.Mounting.{AreMounts};
ghost use Rattle.image_keep.specs.Kept.{Alive, first_kept, with_keeping};
ghost use Rattle.image_keep.specs.Deposits.{memory_size, HasByte, IsNobodys};
ghost use Rattle.unix_core.specs.Parts.{first_held, first_size, AreFirst};
ghost use Rattle.unix_core.specs.Deposits.{IsPutIn};
ghost use Rattle.abstract_unix.specs.declared.ends.Ends.TheVariants.{AtEnd};
ghost use Rattle.abstract_unix.specs.Turn.{turned, ticked_by, NobodyCanRun};
ghost use Rattle.abstract_unix.specs.Private.{AllUndisturbed, TickUndisturbed, OthersUndisturbed};
ghost use Rattle.abstract_unix.specs.Shared.{AllTextsStay, OtherTextsStay};
ghost use Rattle.unix_core.specs.State.{KeepsRest};

use crate::files::{ROOT, see_kept, see_procs};
use crate::init::put_program;
use crate::machine::{Machine, Stage};
use crate::slots::Slots;
use crate::world::World;
use abstract_unix::Turned;
use fs_codec::DISK_BLOCKS;
use fs_nodes::Nodes;
use fs_tree::Tree;
use image_keep::Images;
use lines_eight::Lines;
use mount_tab::Mounts;
use open_files::OpenTable;
use pdp_decode::Dispatch;
use pdp_step::Outcome;
use pick_rules::Table;
use proc_tab::Rows;
use seg_regs::Proto;
use std::marker::Model;
use sys_files::{Files, Pipes};
use sys_procs::Procs;
use v6_base::{Entry, LINES, PanicKind, Slot, Tape, Trace};

/// The slot of process 1.
const SLOT: Slot = 1;

/// The sizes of process 1 as it begins: one click of data.
const FIRST: Proto = Proto {
    text_size: 0,
    data_size: 1,
    stack_size: 0,
};

/// Makes the first image of process 1, with the program that executes `/etc/init`, at the front of core.
fn make_first(procs: &mut Procs)
    requires least { 64 ≤ procs.old.images.kept.core }
    requires empty { procs.old.images.kept ≡ first_kept procs.old.images.kept.core }
    requires size { length procs.old.images.core ≡ 64 * procs.old.images.kept.core }
    ensures swap { procs.new.images.swap ≡ procs.old.images.swap }
    ensures core { drop first_size procs.new.images.core ≡ drop first_size procs.old.images.core }
    ensures kept { procs.new.images.kept ≡ with_keeping procs.old.images.kept 1 (Alive first_held) }
    ensures others { procs.new ≡ record procs.old { images = procs.new.images } }
{
    let _ = procs.images.replace(SLOT, FIRST, None);
    put_program(procs, SLOT);
    let mut u = procs.images.area(SLOT);
    u.dir = ROOT;
    procs.images.set_area(SLOT, &u);
}

/// Process 1 alone, with its first image, over images of which nothing is used.
pub(crate) fn first_procs(images: Images, time: u32) -> Procs
    requires least { 64 ≤ images.kept.core }
    requires empty { images.kept ≡ first_kept images.kept.core }
    requires size { length images.core ≡ 64 * images.kept.core }
    ensures first { AreFirst result images.kept.core time }
    ensures swap { result.images.swap ≡ images.swap }
    ensures core { drop first_size result.images.core ≡ drop first_size images.core }
{
    let mut procs = Procs {
        rows: Rows::new(),
        table: Table::new(time),
        images,
        switches: 0,
    };
    make_first(&mut procs);
    procs
}

/// What takes memory beside the disks: the processes with their images, the tape, and the handler of each instruction word.
#[derive(Drop)]
pub(crate) struct Rooms {
    pub(crate) procs: Procs,
    pub(crate) tape: Tape,
    pub(crate) dispatch: Dispatch,
}

/// The kernel with its processes and its disk: the abstract Unix, in fixed memory.
#[derive(Drop)]
pub struct Kernel {
    pub(crate) machine: Machine,
    /// The handler of each instruction word.
    dispatch: Dispatch,
}

impl Model for Kernel {
    ghost use Rattle.unix_core.specs.State.{KernelState};
    ghost use Rattle.unix_core.specs.Parts.{IsKernel, system_at, phase_of};

    ghost Value = { KernelState };

    ghost view = { λ k. record {
      system = system_at k.machine.world;
      kept = k.machine.world.procs.images.kept;
      core = k.machine.world.procs.images.core;
      swap = k.machine.world.procs.images.swap;
      blocks = k.machine.world.files.tree.nodes.blocks;
      stored = k.machine.world.files.tree.nodes.stored;
      phase = phase_of k.machine.stage;
    } };

    ghost invariant = { λ k. IsKernel k.machine.stage k.machine.world };
}

impl Kernel {
    ghost use Rattle.abstract_unix.specs.Unix.{New, Started, Stopped, Finished};
    ghost use Rattle.abstract_unix.specs.Endings.{phase_after};
    ghost use Rattle.unix_core.specs.Memory.{kept_in};
    ghost use Rattle.abstract_unix.specs.Runs.{Slot, Tick, Byte, Switch, Disk, Pace, Hangup, start_of, event_of, system_with, finished};

    /// A kernel with a file system, whose process 1 is about to execute `/etc/init`, with a tape of which nothing is used.
    /// Inode 1 is referred to as the root and as a directory. It is never an error: a kernel is large, and one that is made as
    /// the result of its caller stands on the stack once.
    pub(crate) fn new<E>(
        rooms: Rooms,
        nodes: Nodes,
        mounts: Mounts,
        core: u16,
        lines: u8,
    ) -> Result<Self, E>
        requires least { 64 ≤ core }
        requires most { core ≤ 3968 }
        requires procs { AreFirst rooms.procs core nodes.store.root.stamp }
        requires tape { rooms.tape ≡ blank 64 524288 }
        requires referred { (ino : ℕ) → slice_index nodes.references ino ≡ (if ino == 1 then 2 else 0) }
        requires mounts { AreMounts mounts nodes.store }
        requires uncovered { mounts.covered ≡ None }
        requires lines { (lines ≡ 1) ⊎ (lines ≡ 8) }
        ensures made { IsOk result }
        ensures system { IfOk result (λ kernel. kernel.system ≡ system_with nodes.store core lines) }
        ensures blocks { IfOk result (λ kernel. kernel.blocks ≡ nodes.blocks) }
        ensures stored { IfOk result (λ kernel. kernel.stored ≡ nodes.stored) }
        ensures swap { IfOk result (λ kernel. kernel.swap ≡ rooms.procs.images.swap) }
        ensures core { IfOk result (λ kernel. kernel.core ≡ rooms.procs.images.core) }
        ensures phase { IfOk result (λ kernel. kernel.phase ≡ New) }
    {
        nodes.see();
        let Rooms {
            procs,
            tape,
            dispatch,
        } = rooms;
        let files = Files {
            tree: Tree::new2(nodes, mounts),
            table: OpenTable::new(),
            lines: Lines::new(lines),
            pipes: Pipes::new(),
        };
        Ok(Kernel {
            machine: Machine {
                stage: Stage::New,
                came: Outcome::Next,
                world: World {
                    files,
                    procs,
                    tape,
                    core,
                    slots: Slots::new(),
                },
            },
            dispatch,
        })
    }

    /// Takes the start of a run, once, before the first event: the swapper finds nobody to bring in, and there is a choice.
    /// `main` and `sched` in Lions' Commentary, `main.c` and `slp.c`.
    pub fn start<T: Trace>(&mut self, trace: &mut T)
        requires { self.old.phase ≡ New }
        ensures phase { self.new.phase ≡ Started }
        ensures next { self.new.system ≡ (start_of self.old.system).next }
        ensures goes { (start_of self.old.system).ending ≡ AtEnd }
        ensures private { AllUndisturbed self.old.system self.new.system }
        ensures texts { AllTextsStay self.old.system self.new.system }
        ensures blocks { self.new.blocks ≡ self.old.blocks }
        ensures stored { self.new.stored ≡ self.old.stored }
        ensures core { self.new.core ≡ self.old.core }
        ensures swap { self.new.swap ≡ self.old.swap }
        ensures rest { KeepsRest self.old self.new }
        ensures items { Took (T.taken trace.old) (start_of self.old.system).items (T.taken trace.new) }
        ensures frame { T.leads_to trace.old trace.new }
    {
        trace.entry(Entry::Boot {
            core: self.machine.world.core,
            time: self.machine.world.procs.table.now,
        });
        self.machine.stage = Stage::Resting;
        let _ran = self.machine.first_pass(trace);
    }

    /// Takes one slot: the turn of the running process, which is one instruction with its call, or the rest of a call in which
    /// it slept. Where it comes to a panic, the run has stopped: no event is taken any more.
    #[inline(always)]
    pub fn turn<T: Trace>(&mut self, trace: &mut T) -> Turned
        requires started { self.old.phase ≡ Started }
        requires fresh { self.old.system.unix.timing.passed ≤ 3000000000 }
        ensures phase { self.new.phase ≡ phase_after (event_of Slot self.old.system).ending }
        ensures answer { result ≡ turned (event_of Slot self.old.system) }
        ensures idle { result ≡ Turned.Idle → NobodyCanRun self.old.system.board.table }
        ensures next { self.new.system ≡ (event_of Slot self.old.system).next }
        ensures private { OthersUndisturbed self.old.system self.new.system }
        ensures texts { OtherTextsStay self.old.system (event_of Slot self.old.system).items self.new.system }
        ensures rest { KeepsRest self.old self.new }
        ensures items { Took (T.taken trace.old) (event_of Slot self.old.system).items (T.taken trace.new) }
        ensures frame { T.leads_to trace.old trace.new }
    {
        see_kept(&self.machine.world.procs.images);
        match &self.machine.stage {
            Stage::Running(fixed) => {
                let images = &mut self.machine.world.procs.images;
                if images.execute(fixed, &self.dispatch, &mut self.machine.came) {
                    // left at once: joined with the other answers it is looked at anew each time
                    return self.machine.count_slot(Turned::Ran, trace);
                }
                self.machine.after_step(trace)
            }
            _ => self.machine.other_slot(trace),
        }
    }

    /// Takes one tick of the clock, a sixtieth of a second: `clock` in Lions' Commentary, `clock.c`. A second that ends in user
    /// mode is as a trap: a signal that is due is delivered.
    ///
    /// # Errors
    ///
    /// `Swap`, `Zombie`: the delivery needs a place, and there is none. The run has stopped then: no event is taken any more.
    pub fn tick<T: Trace>(&mut self, trace: &mut T) -> Result<(), PanicKind>
        requires { self.old.phase ≡ Started }
        ensures phase { self.new.phase ≡ phase_after (event_of Tick self.old.system).ending }
        ensures answer { result ≡ ticked_by (event_of Tick self.old.system).ending }
        ensures next { self.new.system ≡ (event_of Tick self.old.system).next }
        ensures private { TickUndisturbed self.old.system self.new.system }
        ensures texts { AllTextsStay self.old.system self.new.system }
        ensures rest { KeepsRest self.old self.new }
        ensures items { Took (T.taken trace.old) (event_of Tick self.old.system).items (T.taken trace.new) }
        ensures frame { T.leads_to trace.old trace.new }
    {
        self.machine.tick(trace)
    }

    /// Takes a byte that is typed on line 0, the console, as `typed_on`.
    pub fn typed<T: Trace>(&mut self, b: u8, trace: &mut T)
        requires { self.old.phase ≡ Started }
        ensures phase { self.new.phase ≡ Started }
        ensures next { self.new.system ≡ (event_of (Byte 0 b) self.old.system).next }
        ensures others { self.new ≡ record self.old { system = self.new.system } }
        ensures private { AllUndisturbed self.old.system self.new.system }
        ensures texts { AllTextsStay self.old.system self.new.system }
        ensures rest { KeepsRest self.old self.new }
        ensures items { Took (T.taken trace.old) (event_of (Byte 0 b) self.old.system).items (T.taken trace.new) }
        ensures frame { T.leads_to trace.old trace.new }
    {
        self.typed_on(0, b, trace);
    }

    /// Takes a byte that is typed on a terminal line: `klrint` in Lions' Commentary, `kl.c`; tty(IV) of the manual. A key that
    /// makes a signal, 0177 or 034 by the low seven bits, sends it to all that have the line. A line that isn't open or isn't
    /// there drops it.
    pub fn typed_on<T: Trace>(&mut self, l: u8, b: u8, trace: &mut T)
        requires started { self.old.phase ≡ Started }
        requires line { l < LINES }
        ensures phase { self.new.phase ≡ Started }
        ensures next { self.new.system ≡ (event_of (Byte l b) self.old.system).next }
        ensures others { self.new ≡ record self.old { system = self.new.system } }
        ensures private { AllUndisturbed self.old.system self.new.system }
        ensures texts { AllTextsStay self.old.system self.new.system }
        ensures rest { KeepsRest self.old self.new }
        ensures items { Took (T.taken trace.old) (event_of (Byte l b) self.old.system).items (T.taken trace.new) }
        ensures frame { T.leads_to trace.old trace.new }
    {
        self.machine.typed(l, b, trace);
    }

    /// Takes the hang-up of a terminal line: all that have it as their terminal have signal 1, and what was typed and what
    /// waits to go out is lost. The line stays open. One that isn't open or isn't there ignores it. signal(II) of the manual.
    pub fn hangup<T: Trace>(&mut self, l: u8, trace: &mut T)
        requires started { self.old.phase ≡ Started }
        requires line { l < LINES }
        ensures phase { self.new.phase ≡ Started }
        ensures next { self.new.system ≡ (event_of (Hangup l) self.old.system).next }
        ensures others { self.new ≡ record self.old { system = self.new.system } }
        ensures private { AllUndisturbed self.old.system self.new.system }
        ensures texts { AllTextsStay self.old.system self.new.system }
        ensures rest { KeepsRest self.old self.new }
        ensures items { Took (T.taken trace.old) (event_of (Hangup l) self.old.system).items (T.taken trace.new) }
        ensures frame { T.leads_to trace.old trace.new }
    {
        self.machine.hangup(l, trace);
    }

    /// From now on what goes out on a terminal line waits, and with the end of each so many slots, counted from here, each line
    /// sends one byte, the lowest line first. 0 is none, as at the start: what waits goes out then, and each byte at once.
    /// `ttstart` in Lions' Commentary, `tty.c`.
    pub fn set_pace<T: Trace>(&mut self, n: u32, trace: &mut T)
        requires started { self.old.phase ≡ Started }
        ensures phase { self.new.phase ≡ Started }
        ensures next { self.new.system ≡ (event_of (Pace n) self.old.system).next }
        ensures others { self.new ≡ record self.old { system = self.new.system } }
        ensures private { AllUndisturbed self.old.system self.new.system }
        ensures texts { AllTextsStay self.old.system self.new.system }
        ensures rest { KeepsRest self.old self.new }
        ensures items { Took (T.taken trace.old) (event_of (Pace n) self.old.system).items (T.taken trace.new) }
        ensures frame { T.leads_to trace.old trace.new }
    {
        self.machine.set_pace(n, trace);
    }

    /// Sets the switches of the console, 16 bits: csw(II) of the manual tells them.
    pub fn set_switches(&mut self, w: u16)
        requires { self.old.phase ≡ Started }
        ensures phase { self.new.phase ≡ Started }
        ensures next { self.new.system ≡ (event_of (Switch w) self.old.system).next }
        ensures others { self.new ≡ record self.old { system = self.new.system } }
        ensures private { AllUndisturbed self.old.system self.new.system }
        ensures texts { AllTextsStay self.old.system self.new.system }
        ensures blocks { self.new.blocks ≡ self.old.blocks }
    {
        self.machine.world.procs.switches = w;
    }

    /// From now on a transfer from the disk takes so many slots: a process whose call has read it waits until they have passed.
    /// 0 is none, as at the start.
    pub fn set_disk(&mut self, n: u32)
        requires started { self.old.phase ≡ Started }
        requires most { n ≤ 999999999 }
        ensures phase { self.new.phase ≡ Started }
        ensures next { self.new.system ≡ (event_of (Disk n) self.old.system).next }
        ensures others { self.new ≡ record self.old { system = self.new.system } }
        ensures private { AllUndisturbed self.old.system self.new.system }
        ensures texts { AllTextsStay self.old.system self.new.system }
        ensures blocks { self.new.blocks ≡ self.old.blocks }
    {
        self.machine.world.slots.disk = n;
    }

    /// How many slots have been taken.
    pub fn passed(&self) -> u32
        ensures { result ≡ self.now.system.unix.timing.passed }
    {
        self.machine.world.slots.passed()
    }

    /// Puts a byte to a place of core, or with `swap` to one of the swap area: true exactly where it is a byte of the data or
    /// of the stack of a process, in which it is another one from now on. Else nothing changes. `at` counts bytes as `core`
    /// and `swap` do. It shows that processes run on these bytes, and on no copy of them; no command makes such a call.
    pub fn deposit(&mut self, swap: bool, at: u32, b: u8) -> bool
        requires phase { self.old.phase ≡ Started }
        requires inside { at < memory_size self.old.kept swap }
        ensures phase { self.new.phase ≡ Started }
        ensures next { result ≡ true → IsPutIn self.old.system swap at b self.new.system }
        ensures there { result ≡ true → HasByte self.new.kept swap at b }
        ensures nobodys { result ≡ false → IsNobodys (kept_in self.old.system) swap at }
        ensures same { result ≡ false → self.new ≡ self.old }
        ensures core { result ≡ true → self.new.core ≡ (if swap then self.old.core else slice_set self.old.core at b) }
        ensures area { result ≡ true → self.new.swap ≡ (if swap then slice_set self.old.swap at b else self.old.swap) }
        ensures told { self.new.kept ≡ kept_in self.new.system }
        ensures blocks { self.new.blocks ≡ self.old.blocks }
        ensures stored { self.new.stored ≡ self.old.stored }
    {
        see_procs(&self.machine.world.procs);
        let is_put = self.machine.world.procs.images.deposit(swap, at, b);
        see_procs(&self.machine.world.procs);
        is_put
    }

    /// Ends a run: writes to each disk what has changed, and the super-block with the time where that has. A file system that
    /// keeps clear of the swap area, as each that was booted does, is without a fault there too. sync(II) of the manual;
    /// `update` in Lions' Commentary, `alloc.c`. Core and the swap area then keep what the system tells.
    pub fn finish(&mut self)
        requires { self.old.phase ≡ Started ⊎ self.old.phase ≡ Stopped }
        ensures phase { self.new.phase ≡ Finished }
        ensures system { self.new.system ≡ finished self.old.system }
        ensures kept { self.new.kept ≡ kept_in self.new.system }
        ensures core { self.new.core ≡ self.old.core }
        ensures swap { self.new.swap ≡ self.old.swap }
        ensures stored { self.new.stored ≡ self.new.blocks }
        ensures stands { AllStand self.new.stored self.new.system.unix.store }
        ensures below { (head (block_at self.old.blocks.root)).f_size ≤ SWAP_START
            → StandsFor SWAP_START (block_at self.new.stored.root) self.new.system.unix.store.root }
        ensures rest { KeepsRest self.old self.new }
        ensures form { IsDisk self.new.blocks.root }
        ensures second_form { OfSecond IsDisk self.new.blocks.second }
    {
        self.machine.stage = Stage::Finished;
        self.machine
            .world
            .files
            .tree
            .nodes
            .update_all(self.machine.world.procs.table.now);
        self.machine.world.files.tree.nodes.see();
        see_procs(&self.machine.world.procs);
    }
}
