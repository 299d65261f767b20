//! A signal that is due comes to its process: signal(II), core(V); `psig` and `core` in Lions' Commentary, `sig.c`.
ghost use Rattle.std.specs.Prelude.{◌≡◌, ◌≢◌, ◌<◌, ◌%◌, ◌==◌, if◌then◌else◌, Bool, Some, true, false};
ghost use Rattle.v6_base.specs.Trace.{Taken, Took};
ghost use Rattle.fs_nodes.specs.FileSystem.{SameRest};
ghost use Rattle.pick_rules.specs.Board.{Board};
ghost use Rattle.pick_rules.specs.Logged.{logged};
ghost use Rattle.proc_tab.specs.Processes.{IsUsed};
ghost use Rattle.image_keep.specs.Kept.{HasImage, IsKept, area_of, image_of, with_area, with_image};
ghost use Rattle.sig_core.specs.Signals.{due, is_signal, handler_of};
ghost use Rattle.sig_core.specs.Delivery.{delivery};
ghost use Rattle.sys_procs.specs.Handed.{IsAlive, process_here};
ghost use Rattle.abstract_unix.specs.Unix.{process_of};
ghost use Rattle.abstract_unix.specs.Steps.{Steps};
ghost use Rattle.abstract_unix.specs.Calls.{exits_with};
ghost use Rattle.abstract_unix.specs.Turn.{is_user};
ghost use Rattle.abstract_unix.specs.Delivery.{heeds, catches, dumped, ends_by, delivers, delivers_due, ends_turn};
ghost use Rattle.unix_core.specs.Parts.{unix_of, board_in, IsGood, IsReady, HasCome, IsCovered, is_over};

use crate::files::{see_covered, see_kept, see_table};
use crate::onfiles::{close_files, put_core};
use crate::passing::pass_on;
use crate::world::World;
use abstract_unix::Ending;
use image_keep::Images;
use sig_core::{Delivered, deliver, due_in};
use sys_procs::{Procs, end_proc, grow};
use u_area::{handler, register};
use v6_base::{Slot, Trace};

/// The status of a process of which the whole file `core` was written has this.
const DUMPED: u16 = 0o200;

/// The signal that is due to a process. Most have none that waits: then nobody looks at the u area.
fn due_to(procs: &Procs, s: Slot) -> Option<u8>
    requires used { IsUsed procs.now.rows s }
    requires alive { IsAlive procs.now s }
    ensures { result ≡ due (process_here procs.now s).row (process_here procs.now s).u }
{
    let row = procs.rows.row(s);
    if row.sig == 0 {
        return None;
    }
    due_in(row, procs.images.area_bytes(s))
}

/// A signal has come to a process, and waits no longer.
fn heed(world: &mut World, s: Slot)
    requires { IsReady world.old s }
    ensures unix { unix_of world.new ≡ heeds (unix_of world.old) s }
    ensures board { board_in world.new ≡ board_in world.old }
    ensures ready { IsReady world.new s }
    ensures files { world.new.files ≡ world.old.files }
    ensures images { world.new.procs.images.kept ≡ world.old.procs.images.kept }
    ensures slots { world.new.slots ≡ world.old.slots }
{
    let mut row = *world.procs.rows.row(s);
    row.sig = 0;
    world.procs.rows.set_row(s, row);
}

/// Does what a process has asked for where this signal comes. Where it has a routine its stack has grown.
fn tell(world: &mut World, s: Slot, sig: u8) -> Delivered
    requires image { HasImage world.old.procs.images.kept s }
    requires signal { is_signal sig ≡ true }
    requires heeded { handler_of (area_of world.old.procs.images.kept s) sig % 2 ≡ 0 }
    ensures answer { result ≡ (delivery (area_of world.old.procs.images.kept s) sig (image_of world.old.procs.images.kept s)).answer }
    ensures images { world.new.procs.images.kept
        ≡ with_area (with_image world.old.procs.images.kept s (delivery (area_of world.old.procs.images.kept s) sig (image_of world.old.procs.images.kept s)).image)
        s (delivery (area_of world.old.procs.images.kept s) sig (image_of world.old.procs.images.kept s)).area }
    ensures others { world.new ≡ record world.old { procs = record world.old.procs { images = world.new.procs.images } } }
    ensures holds { IsKept world.old.procs.images.kept }
    ensures slots { world.new.slots ≡ world.old.slots }
{
    let mut u = world.procs.images.area(s);
    let told = {
        let mut space = world.procs.images.space(s);
        deliver(&mut u, sig, &mut space)
    };
    world.procs.images.set_registers(s, &u.r, u.cc);
    let sig = usize::from(sig);
    world.procs.images.set_handler(s, sig, u.handlers[sig]);
    told
}

/// Whether a process has asked for nothing where this signal comes.
fn is_default(images: &Images, s: Slot, sig: u8) -> bool
    requires image { HasImage images.now.kept s }
    requires signal { is_signal sig ≡ true }
    ensures { result ≡ (handler_of (area_of images.now.kept s) sig == 0) }
{
    handler(images.area_bytes(s), usize::from(sig)) == 0
}

/// Whether a process that was told of a signal leaves the file `core`.
fn leaves_core(told: Delivered) -> bool
    ensures { (core : Bool) → told ≡ Delivered.Ends core → result ≡ core }
{
    match told {
        Delivered::Ends { core } => core,
        Delivered::Caught => false,
    }
}

/// A process goes on with its routine for a signal: its stack grows first for what is pushed, where it must and can. Where it
/// stops, neither core nor the swap area has room for the image.
fn catch<T: Trace>(world: &mut World, s: Slot, sig: u8, trace: &mut T) -> Ending
    requires ready { IsReady world.old s }
    requires signal { is_signal sig ≡ true }
    requires heeded { handler_of (area_of world.old.procs.images.kept s) sig % 2 ≡ 0 }
    requires routine { handler_of (area_of world.old.procs.images.kept s) sig ≢ 0 }
    ensures come { HasCome (board_in world.old) (catches (unix_of world.old) s sig) result world.new }
    ensures ready { is_over result ≡ false → IsReady world.new s }
    ensures covered { is_over result ≡ true → IsCovered world.new }
    ensures runs { world.new.procs.table.running ≡ Some s }
    ensures items { Took (T.taken trace.old) (logged (board_in world.old) (catches (unix_of world.old) s sig).effects).items
        (T.taken trace.new) }
    ensures frame { T.leads_to trace.old trace.new }
    ensures rest { SameRest world.old.files.tree.nodes world.new.files.tree.nodes }
    ensures slots { world.new.slots ≡ world.old.slots }
{
    world.files.tree.nodes.see();
    see_table(&world.files.table);
    see_kept(&world.procs.images);
    let sp = register(world.procs.images.area_bytes(s), 6).wrapping_sub(4);
    match grow(&mut world.procs, &mut world.files.tree, s, sp, trace) {
        Ok(_) => {
            let _caught = tell(world, s, sig);
            Ending::Trapped
        }
        Err(kind) => {
            see_covered(world);
            Ending::Panic(kind)
        }
    }
}

/// Ends a process with a status: its files are closed, and it has ended.
pub(crate) fn end_with<T: Trace>(world: &mut World, s: Slot, status: u16, trace: &mut T) -> Ending
    requires ready { IsReady world.old s }
    requires user { is_user (process_of (unix_of world.old) s) ≡ true }
    ensures come { HasCome (board_in world.old) (exits_with (unix_of world.old) s status) result world.new }
    ensures good { is_over result ≡ false → IsGood world.new }
    ensures covered { is_over result ≡ true → IsCovered world.new }
    ensures runs { result ≢ Ending.Ended → world.new.procs.table.running ≡ Some s }
    ensures items { Took (T.taken trace.old) (logged (board_in world.old) (exits_with (unix_of world.old) s status).effects).items
        (T.taken trace.new) }
    ensures frame { T.leads_to trace.old trace.new }
    ensures rest { SameRest world.old.files.tree.nodes world.new.files.tree.nodes }
    ensures slots { world.new.slots ≡ world.old.slots }
{
    close_files(world, s);
    pass_on(&world.tape, &mut world.procs.table, trace);
    world.files.tree.nodes.see();
    see_table(&world.files.table);
    see_kept(&world.procs.images);
    let ended = end_proc(&mut world.procs, &mut world.files.tree, s, status, trace);
    see_covered(world);
    match ended {
        Ok(()) => Ending::Ended,
        Err(kind) => Ending::Panic(kind),
    }
}

/// What the status of a process has for its file `core`.
fn flag_of(whole: bool) -> u16
    ensures { result ≡ (if whole then dumped else 0) }
{
    if whole { DUMPED } else { 0 }
}

/// Ends a process by a signal, which may leave the file `core`.
fn end_by<T: Trace>(world: &mut World, s: Slot, sig: u8, trace: &mut T) -> Ending
    requires ready { IsReady world.old s }
    requires user { is_user (process_of (unix_of world.old) s) ≡ true }
    requires signal { is_signal sig ≡ true }
    requires default { handler_of (area_of world.old.procs.images.kept s) sig ≡ 0 }
    ensures come { HasCome (board_in world.old) (ends_by (unix_of world.old) s sig) result world.new }
    ensures items { Took (T.taken trace.old) (logged (board_in world.old) (ends_by (unix_of world.old) s sig).effects).items
        (T.taken trace.new) }
    ensures good { is_over result ≡ false → IsGood world.new }
    ensures covered { is_over result ≡ true → IsCovered world.new }
    ensures runs { result ≢ Ending.Ended → world.new.procs.table.running ≡ Some s }
    ensures frame { T.leads_to trace.old trace.new }
    ensures rest { SameRest world.old.files.tree.nodes world.new.files.tree.nodes }
    ensures slots { world.new.slots ≡ world.old.slots }
{
    let r0 = register(world.procs.images.area_bytes(s), 0);
    let status = 256 * (r0 % 256) + u16::from(sig);
    let told = tell(world, s, sig);
    if leaves_core(told) {
        let whole = put_core(world, s);
        return end_with(world, s, status + flag_of(whole), trace);
    }
    end_with(world, s, status, trace)
}

/// Delivers a signal to a process.
#[cold]
#[inline(never)]
fn deliver_to<T: Trace>(world: &mut World, s: Slot, sig: u8, trace: &mut T) -> Ending
    requires ready { IsReady world.old s }
    requires user { is_user (process_of (unix_of world.old) s) ≡ true }
    requires due { due (process_of (unix_of world.old) s).row (process_of (unix_of world.old) s).u ≡ Some sig }
    ensures come { HasCome (board_in world.old) (delivers (unix_of world.old) s sig) result world.new }
    ensures good { is_over result ≡ false → IsGood world.new }
    ensures covered { is_over result ≡ true → IsCovered world.new }
    ensures runs { result ≢ Ending.Ended → world.new.procs.table.running ≡ Some s }
    ensures items { Took (T.taken trace.old) (logged (board_in world.old) (delivers (unix_of world.old) s sig).effects).items
        (T.taken trace.new) }
    ensures frame { T.leads_to trace.old trace.new }
    ensures rest { SameRest world.old.files.tree.nodes world.new.files.tree.nodes }
    ensures slots { world.new.slots ≡ world.old.slots }
{
    heed(world, s);
    if is_default(&world.procs.images, s, sig) {
        return end_by(world, s, sig, trace);
    }
    catch(world, s, sig, trace)
}

/// Delivers the signal that is due to the running process, where one is: at the end of a turn, and in a tick.
#[inline(always)]
pub(crate) fn deliver_due<T: Trace>(world: &mut World, s: Slot, trace: &mut T) -> Ending
    requires ready { IsReady world.old s }
    requires user { is_user (process_of (unix_of world.old) s) ≡ true }
    ensures come { HasCome (board_in world.old) (delivers_due (unix_of world.old) s) result world.new }
    ensures good { is_over result ≡ false → IsGood world.new }
    ensures covered { is_over result ≡ true → IsCovered world.new }
    ensures runs { result ≢ Ending.Ended → world.new.procs.table.running ≡ Some s }
    ensures items { Took (T.taken trace.old) (logged (board_in world.old) (delivers_due (unix_of world.old) s).effects).items
        (T.taken trace.new) }
    ensures frame { T.leads_to trace.old trace.new }
    ensures rest { SameRest world.old.files.tree.nodes world.new.files.tree.nodes }
    ensures slots { world.new.slots ≡ world.old.slots }
{
    match due_to(&world.procs, s) {
        Some(sig) => deliver_to(world, s, sig, trace),
        None => Ending::Trapped,
    }
}

/// Delivers a signal at the end of a turn that has come to this, where the process has come out of a trap.
#[inline(always)]
pub(crate) fn deliver_after<T: Trace>(
    world: &mut World,
    s: Slot,
    ending: Ending,
    trace: &mut T,
) -> Ending
    requires above { 0 < s }
    requires good { is_over ending ≡ false → IsGood world.old }
    requires covered { is_over ending ≡ true → IsCovered world.old }
    requires runs { is_over ending ≡ false → ending ≢ Ending.Ended → world.old.procs.table.running ≡ Some s }
    requires user { ending ≡ Ending.Trapped → is_user (process_of (unix_of world.old) s) ≡ true }
    ensures good { is_over result ≡ false → IsGood world.new }
    ensures covered { is_over result ≡ true → IsCovered world.new }
    ensures runs { is_over result ≡ false → result ≢ Ending.Ended → world.new.procs.table.running ≡ Some s }
    ensures come { (b : Board) (steps : Steps) → HasCome b steps ending world.old → HasCome b (ends_turn s steps) result world.new }
    ensures items { (b : Board) (steps : Steps) (start : Taken) → HasCome b steps ending world.old
        → Took start (logged b steps.effects).items (T.taken trace.old)
        → Took start (logged b (ends_turn s steps).effects).items (T.taken trace.new) }
    ensures frame { T.leads_to trace.old trace.new }
    ensures rest { SameRest world.old.files.tree.nodes world.new.files.tree.nodes }
    ensures slots { world.new.slots ≡ world.old.slots }
    ensures stopped { is_over ending ≡ true → result ≡ ending }
{
    match ending {
        Ending::Trapped => deliver_due(world, s, trace),
        ending => ending,
    }
}
