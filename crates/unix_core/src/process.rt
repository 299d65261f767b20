//! Turns and calls of a process: what an instruction comes to, and how a call goes on. `trap` in Lions' Commentary, `trap.c`.
ghost use Rattle.std.specs.Prelude.{◌≡◌, ◌≢◌, ◌≤◌, ◌&&◌, ◌==◌, not, Some, true, false};
ghost use Rattle.v6_base.specs.Trace.{Took};
ghost use Rattle.fs_nodes.specs.FileSystem.{SameRest};
ghost use Rattle.pick_rules.specs.Logged.{logged};
ghost use Rattle.image_keep.specs.Kept.{HasImage, area_of, with_area};
ghost use Rattle.open_files.specs.Files.{AreOpen, HaveRoom};
ghost use Rattle.sys_files.specs.Handed.{Handed, r0};
ghost use Rattle.sys_files.specs.Descriptors.{open_entry};
ghost use Rattle.sys_files.specs.Moving.{resumes};
ghost use Rattle.sys_procs.specs.Resume.{resume_proc};
ghost use Rattle.image_keep.specs.Running.{IsFixed};
ghost use Rattle.abstract_unix.specs.Unix.{Unix, process_of};
ghost use Rattle.abstract_unix.specs.Steps.{signals};
ghost use Rattle.abstract_unix.specs.Calls.{world_of, words_passed, entered_area, given_area, refused_area, refuses, is_read, is_of_disk, has_bytes, loads_program, waits_in_call, system_call, does_call, did_by, came_by, shares, forks, exits, grows_to, resumed, answers, handed_of};
ghost use Rattle.u_area.specs.Pending.{is_on_files};
ghost use Rattle.abstract_unix.specs.Errors.{error_number};
ghost use Rattle.abstract_unix.specs.Turn.{faults, comes_to, waits_in, passes_setd, is_user};
ghost use Rattle.unix_core.specs.Slots.{CanWait, HasWaited};
ghost use Rattle.unix_core.specs.Parts.{unix_of, board_in, IsGood, IsReady, HasCome, IsCovered, is_over};

use crate::asked::ask;
use crate::delivery::end_with;
use crate::files::{see_covered, see_kept, see_procs, see_table};
use crate::onfiles::{do_on_files, resume_on_files};
use crate::passing::pass_on;
use crate::slots::{end_wait, wait_for_disk};
use crate::world::World;
use abstract_unix::{Asked, Ending, FileCall, ProcessCall, SystemCall, do_process_call, sysent_of};
use image_keep::{Fixed, Images};
use open_files::OpenTable;
use pdp_step::{Kind, Outcome};
use sig_core::{SIGBUS, SIGEMT, SIGINS, SIGIOT, SIGSEG, SIGSYS, SIGTRC};
use sys_files::is_device_at;
use sys_procs::{fork_one, grow, resume_proc, send_signal};
use u_area::{DISK_WAIT, codes, files, handler, is_on_files, pending_call, register};
use v6_base::{Answer, Errno, PanicKind, Slot, Trace};

/// The first number of an error that makes a signal.
const FIRST_SIGNAL: u16 = 100;

/// The instruction by which a program asks for floating point of double precision.
const SETD: u16 = 0o170011;

/// A call begins: C is cleared, and the PC passes so many words.
fn enter(images: &mut Images, fixed: &Fixed, words: u8)
    requires { IsFixed images.old.kept fixed.now }
    ensures kept { images.new.kept
        ≡ with_area images.old.kept fixed.now.slot (entered_area words (area_of images.old.kept fixed.now.slot)) }
    ensures fixed { IsFixed images.new.kept fixed.now }
{
    let area = images.area_bytes_at(fixed);
    let pc = register(area, 7).wrapping_add(2 * u16::from(words));
    let cc = codes(area);
    let cc = cc - cc % 2;
    images.set_pc_at(fixed, pc, cc);
}

/// R0 and R1 take what a call gives.
fn give(images: &mut Images, s: Slot, r0: u16, r1: u16)
    requires { HasImage images.old.kept s }
    ensures { images.new.kept ≡ with_area images.old.kept s (given_area r0 r1 (area_of images.old.kept s)) }
{
    images.set_results(s, r0, r1);
}

/// A call is refused: C is set, and R0 takes the number of the error.
fn refuse(images: &mut Images, s: Slot, number: u16)
    requires { HasImage images.old.kept s }
    ensures { images.new.kept ≡ with_area images.old.kept s (refused_area number (area_of images.old.kept s)) }
{
    let cc = codes(images.area_bytes(s));
    images.set_register(s, 0, number);
    images.set_codes(s, cc - cc % 2 + 1);
}

/// The number of an error: INTRO(II).
fn error_number(error: Errno) -> u16
    ensures { result ≡ error_number error }
{
    error as u16
}

/// A process is sent a signal by what it does: it comes out of a trap.
fn signal<T: Trace>(world: &mut World, s: Slot, sig: u8, trace: &mut T) -> Ending
    requires { IsReady world.old s }
    ensures come { HasCome (board_in world.old) (signals (unix_of world.old) s sig) result world.new }
    ensures ready { IsReady world.new s }
    ensures trapped { result ≡ Ending.Trapped }
    ensures items { Took (T.taken trace.old) (logged (board_in world.old) (signals (unix_of world.old) s sig).effects).items
        (T.taken trace.new) }
    ensures frame { T.leads_to trace.old trace.new }
    ensures blocks { world.new.files.tree.nodes.blocks ≡ world.old.files.tree.nodes.blocks }
    ensures slots { world.new.slots ≡ world.old.slots }
{
    send_signal(&mut world.procs, s, u16::from(sig), trace);
    Ending::Trapped
}

/// A call is refused with an error. One of 100 or more makes a signal.
#[cold]
#[inline(never)]
fn fail<T: Trace>(world: &mut World, s: Slot, error: Errno, trace: &mut T) -> Ending
    requires { IsReady world.old s }
    ensures come { HasCome (board_in world.old) (refuses (unix_of world.old) s (error_number error)) result world.new }
    ensures ready { IsReady world.new s }
    ensures trapped { result ≡ Ending.Trapped }
    ensures items { Took (T.taken trace.old)
        (logged (board_in world.old) (refuses (unix_of world.old) s (error_number error)).effects).items (T.taken trace.new) }
    ensures frame { T.leads_to trace.old trace.new }
    ensures blocks { world.new.files.tree.nodes.blocks ≡ world.old.files.tree.nodes.blocks }
    ensures slots { world.new.slots ≡ world.old.slots }
{
    let number = error_number(error);
    if number >= FIRST_SIGNAL {
        return signal(world, s, SIGSYS, trace);
    }
    refuse(&mut world.procs.images, s, number);
    Ending::Trapped
}

/// A call ends: the registers take what it answers.
#[inline(always)]
fn conclude<T: Trace>(world: &mut World, s: Slot, answer: Answer, trace: &mut T) -> Ending
    requires { IsReady world.old s }
    ensures come { HasCome (board_in world.old) (answers (unix_of world.old) s answer) result world.new }
    ensures ready { IsReady world.new s }
    ensures goes { is_over result ≡ false }
    ensures items { Took (T.taken trace.old) (logged (board_in world.old) (answers (unix_of world.old) s answer).effects).items
        (T.taken trace.new) }
    ensures frame { T.leads_to trace.old trace.new }
    ensures blocks { world.new.files.tree.nodes.blocks ≡ world.old.files.tree.nodes.blocks }
    ensures slots { world.new.slots ≡ world.old.slots }
{
    match answer {
        Answer::Ret { r0, r1 } => {
            give(&mut world.procs.images, s, r0, r1);
            Ending::Trapped
        }
        Answer::Fail(error) => fail(world, s, error, trace),
        Answer::Sleep { pri, chan } => Ending::Slept { pri, chan },
    }
}

/// A call on files, which has been entered.
#[inline(never)]
fn call_files<T: Trace>(
    world: &mut World,
    fixed: &Fixed,
    call: FileCall,
    args: [u16; 4],
    trace: &mut T,
) -> Ending
    requires fixed { IsFixed world.old.procs.images.kept fixed.now }
    requires ready { IsReady world.old fixed.now.slot }
    requires user { is_user (process_of (unix_of world.old) fixed.now.slot) ≡ true }
    requires waits { CanWait world.old.slots }
    ensures come { HasCome (board_in world.old) (does_call (unix_of world.old) fixed.now.slot
        (SystemCall.OnFiles call) args) result world.new }
    ensures ready { IsReady world.new fixed.now.slot }
    ensures covered { is_over result ≡ true → IsCovered world.new }
    ensures items { Took (T.taken trace.old) (logged (board_in world.old) (does_call (unix_of world.old) fixed.now.slot
        (SystemCall.OnFiles call) args).effects).items (T.taken trace.new) }
    ensures frame { T.leads_to trace.old trace.new }
    ensures rest { SameRest world.old.files.tree.nodes world.new.files.tree.nodes }
    ensures slots { HasWaited (waits_in_call (unix_of world.old) fixed.now.slot (SystemCall.OnFiles call) args)
        world.old.slots world.new.slots }
{
    // asked before the call: R0 has the number of the file until the answer comes
    let may = may_wait(world, fixed.slot, call);
    let answer = do_on_files(world, fixed, call, args);
    pass_on(&world.tape, &mut world.procs.table, trace);
    let ending = conclude(world, fixed.slot, answer, trace);
    if waits(may, answer) {
        return wait_for_disk(world, fixed.slot);
    }
    ending
}

/// Whether a call on files waits for the disk, where it answers with some bytes: a transfer takes time, and it is a read of the
/// disk.
#[inline(always)]
fn may_wait(world: &World, s: Slot, call: FileCall) -> bool
    requires { IsReady world.now s }
    ensures { (h : Handed) → h ≡ handed_of (unix_of world.now) (process_of (unix_of world.now) s)
        → result ≡ ((is_read call && is_of_disk h (open_entry h (r0 h))) && not (world.now.slots.disk == 0)) }
{
    if world.slots.disk == 0 {
        return false;
    }
    asks_disk(world, s, call)
}

/// Whether a call that may wait for the disk does so, by what it answers: R0 takes a number that isn't 0.
#[inline(always)]
fn waits(may: bool, answer: Answer) -> bool
    ensures { result ≡ (may && has_bytes answer) }
{
    match answer {
        Answer::Ret { r0, .. } => may && r0 != 0,
        Answer::Fail(_) | Answer::Sleep { .. } => false,
    }
}

/// Whether a call on files is a read of the disk: of a plain file or a directory, and of no pipe.
#[cold]
#[inline(never)]
fn asks_disk(world: &World, s: Slot, call: FileCall) -> bool
    requires { IsReady world.now s }
    ensures { (h : Handed) → h ≡ handed_of (unix_of world.now) (process_of (unix_of world.now) s)
        → result ≡ (is_read call && is_of_disk h (open_entry h (r0 h))) }
{
    match call {
        FileCall::Read => names_disk(world, s),
        _ => false,
    }
}

/// Whether R0 has the number of an open file that is a plain file or a directory, and no pipe.
fn names_disk(world: &World, s: Slot) -> bool
    requires { IsReady world.now s }
    ensures { (h : Handed) → h ≡ handed_of (unix_of world.now) (process_of (unix_of world.now) s)
        → result ≡ is_of_disk h (open_entry h (r0 h)) }
{
    see_kept(&world.procs.images);
    see_table(&world.files.table);
    world.files.tree.nodes.see();
    let area = world.procs.images.area_bytes(s);
    match world.files.table.get(&files(area), register(area, 0)) {
        Ok(entry) => {
            let file = world.files.table.file(entry);
            let device = is_device_at(&world.files.tree.nodes, file.ino);
            !file.kind.pipe && !device
        }
        Err(_) => false,
    }
}

/// Whether a call on processes that answers so has loaded a program: exec(II).
fn loads_program(call: ProcessCall, answer: Answer) -> bool
    ensures { result ≡ loads_program call answer }
{
    match call {
        ProcessCall::Exec => matches!(answer, Answer::Ret { .. }),
        _ => false,
    }
}

/// Whether a call on processes that answers so waits for the disk: a transfer takes time, and it has loaded a program.
#[inline(always)]
fn has_loaded(world: &World, call: ProcessCall, answer: Answer) -> bool
    ensures { result ≡ (loads_program call answer && not (world.now.slots.disk == 0)) }
{
    if world.slots.disk == 0 {
        return false;
    }
    loads_program(call, answer)
}

/// A call on processes, which has been entered.
#[inline(never)]
fn call_processes<T: Trace>(
    world: &mut World,
    s: Slot,
    call: ProcessCall,
    args: [u16; 4],
    trace: &mut T,
) -> Ending
    requires ready { IsReady world.old s }
    requires user { is_user (process_of (unix_of world.old) s) ≡ true }
    requires waits { CanWait world.old.slots }
    ensures come { HasCome (board_in world.old) (does_call (unix_of world.old) s (SystemCall.OnProcesses call) args) result world.new }
    ensures ready { is_over result ≡ false → IsReady world.new s }
    ensures covered { is_over result ≡ true → IsCovered world.new }
    ensures items { Took (T.taken trace.old) (logged (board_in world.old)
        (does_call (unix_of world.old) s (SystemCall.OnProcesses call) args).effects).items (T.taken trace.new) }
    ensures frame { T.leads_to trace.old trace.new }
    ensures rest { SameRest world.old.files.tree.nodes world.new.files.tree.nodes }
    ensures slots { is_over result ≡ false
        → HasWaited (waits_in_call (unix_of world.old) s (SystemCall.OnProcesses call) args) world.old.slots world.new.slots }
    ensures within { world.new.slots.left ≤ world.new.slots.due }
{
    world.files.tree.nodes.see();
    see_table(&world.files.table);
    see_kept(&world.procs.images);
    match do_process_call(
        call,
        &mut world.procs,
        &mut world.files.tree,
        s,
        args,
        trace,
    ) {
        Ok(answer) => {
            let ending = conclude(world, s, answer, trace);
            if has_loaded(world, call, answer) {
                return wait_for_disk(world, s);
            }
            ending
        }
        Err(kind) => {
            see_procs(&world.procs);
            Ending::Panic(kind)
        }
    }
}

/// The child of a process that forked names the same files; a fork that was refused shares none.
fn share_files(table: &mut OpenTable, mine: &[u8; 15], answer: Answer)
    requires open { AreOpen table.old mine.now }
    requires few { HaveRoom table.old }
    ensures { table.new ≡ shares table.old mine.now answer }
{
    if let Answer::Ret { .. } = answer {
        table.share(mine);
    }
}

/// fork(II): the child has its parent's open files.
#[inline(never)]
fn fork<T: Trace>(world: &mut World, s: Slot, trace: &mut T) -> Ending
    requires ready { IsReady world.old s }
    requires user { is_user (process_of (unix_of world.old) s) ≡ true }
    ensures come { HasCome (board_in world.old) (forks (unix_of world.old) s) result world.new }
    ensures ready { is_over result ≡ false → IsReady world.new s }
    ensures covered { is_over result ≡ true → IsCovered world.new }
    ensures items { Took (T.taken trace.old) (logged (board_in world.old) (forks (unix_of world.old) s).effects).items
        (T.taken trace.new) }
    ensures frame { T.leads_to trace.old trace.new }
    ensures rest { SameRest world.old.files.tree.nodes world.new.files.tree.nodes }
    ensures slots { world.new.slots ≡ world.old.slots }
{
    let numbers = files(world.procs.images.area_bytes(s));
    world.files.tree.nodes.see();
    see_table(&world.files.table);
    see_kept(&world.procs.images);
    match fork_one(&mut world.procs, &mut world.files.tree, s, [0; 4], trace) {
        Ok(answer) => {
            share_files(&mut world.files.table, &numbers, answer);
            conclude(world, s, answer, trace)
        }
        Err(kind) => {
            see_covered(world);
            Ending::Panic(kind)
        }
    }
}

/// exit(II): the files of the process are closed, and it has ended.
#[inline(never)]
fn exit<T: Trace>(world: &mut World, s: Slot, trace: &mut T) -> Ending
    requires ready { IsReady world.old s }
    requires user { is_user (process_of (unix_of world.old) s) ≡ true }
    ensures come { HasCome (board_in world.old) (exits (unix_of world.old) s) result world.new }
    ensures good { is_over result ≡ false → IsGood world.new }
    ensures covered { is_over result ≡ true → IsCovered world.new }
    ensures runs { result ≢ Ending.Ended → world.new.procs.table.running ≡ Some s }
    ensures items { Took (T.taken trace.old) (logged (board_in world.old) (exits (unix_of world.old) s).effects).items
        (T.taken trace.new) }
    ensures frame { T.leads_to trace.old trace.new }
    ensures rest { SameRest world.old.files.tree.nodes world.new.files.tree.nodes }
    ensures slots { world.new.slots ≡ world.old.slots }
{
    let r0 = register(world.procs.images.area_bytes(s), 0);
    end_with(world, s, 256 * (r0 % 256), trace)
}

/// Lets the stack grow for an instruction that wanted an address below it: the instruction is done again in a later slot.
fn grow_stack<T: Trace>(world: &mut World, s: Slot, sp: u16, trace: &mut T) -> Ending
    requires { IsReady world.old s }
    ensures come { HasCome (board_in world.old) (grows_to (unix_of world.old) s sp) result world.new }
    ensures ready { is_over result ≡ false → IsReady world.new s }
    ensures covered { is_over result ≡ true → IsCovered world.new }
    ensures call { result ≢ Ending.Next }
    ensures items { Took (T.taken trace.old) (logged (board_in world.old) (grows_to (unix_of world.old) s sp).effects).items
        (T.taken trace.new) }
    ensures frame { T.leads_to trace.old trace.new }
    ensures rest { SameRest world.old.files.tree.nodes world.new.files.tree.nodes }
    ensures slots { world.new.slots ≡ world.old.slots }
{
    world.files.tree.nodes.see();
    see_table(&world.files.table);
    see_kept(&world.procs.images);
    let grown = grow(&mut world.procs, &mut world.files.tree, s, sp, trace);
    match grown {
        Ok(true) => Ending::Trapped,
        Ok(false) => signal(world, s, SIGSEG, trace),
        Err(kind) => {
            see_covered(world);
            Ending::Panic(kind)
        }
    }
}

/// A call that has been entered.
#[inline(always)]
fn does_call<T: Trace>(
    world: &mut World,
    fixed: &Fixed,
    call: SystemCall,
    args: [u16; 4],
    trace: &mut T,
) -> Ending
    requires fixed { IsFixed world.old.procs.images.kept fixed.now }
    requires ready { IsReady world.old fixed.now.slot }
    requires user { is_user (process_of (unix_of world.old) fixed.now.slot) ≡ true }
    requires waits { CanWait world.old.slots }
    ensures come { HasCome (board_in world.old) (does_call (unix_of world.old) fixed.now.slot call args) result world.new }
    ensures good { is_over result ≡ false → IsGood world.new }
    ensures covered { is_over result ≡ true → IsCovered world.new }
    ensures runs { is_over result ≡ false → result ≢ Ending.Ended → world.new.procs.table.running ≡ Some fixed.now.slot }
    ensures call { result ≢ Ending.Next }
    ensures items { Took (T.taken trace.old) (logged (board_in world.old)
        (does_call (unix_of world.old) fixed.now.slot call args).effects).items (T.taken trace.new) }
    ensures frame { T.leads_to trace.old trace.new }
    ensures rest { SameRest world.old.files.tree.nodes world.new.files.tree.nodes }
    ensures slots { is_over result ≡ false
        → HasWaited (waits_in_call (unix_of world.old) fixed.now.slot call args) world.old.slots world.new.slots }
    ensures within { world.new.slots.left ≤ world.new.slots.due }
{
    let s = fixed.slot;
    match call {
        SystemCall::Indirect => Ending::Trapped,
        SystemCall::Exit => exit(world, s, trace),
        SystemCall::Fork => fork(world, s, trace),
        SystemCall::Unknown => fail(world, s, Errno::ENOSYS, trace),
        SystemCall::OnFiles(on_files) => call_files(world, fixed, on_files, args, trace),
        SystemCall::OnProcesses(on_processes) => {
            call_processes(world, s, on_processes, args, trace)
        }
    }
}

/// The words that the PC passes, for a call of so many arguments.
fn words_passed(asked: &Asked, count: u8) -> u8
    ensures { result ≡ words_passed asked.now count }
{
    if asked.is_indirect { 1 } else { count }
}

/// A call by its number, where the PC has passed its word.
#[inline(always)]
fn call<T: Trace>(world: &mut World, fixed: &Fixed, number: u8, trace: &mut T) -> Ending
    requires fixed { IsFixed world.old.procs.images.kept fixed.now }
    requires ready { IsReady world.old fixed.now.slot }
    requires user { is_user (process_of (unix_of world.old) fixed.now.slot) ≡ true }
    requires waits { CanWait world.old.slots }
    ensures come { HasCome (board_in world.old) (system_call number (unix_of world.old) fixed.now.slot) result world.new }
    ensures good { is_over result ≡ false → IsGood world.new }
    ensures covered { is_over result ≡ true → IsCovered world.new }
    ensures runs { is_over result ≡ false → result ≢ Ending.Ended → world.new.procs.table.running ≡ Some fixed.now.slot }
    ensures call { result ≢ Ending.Next }
    ensures items { Took (T.taken trace.old) (logged (board_in world.old)
        (system_call number (unix_of world.old) fixed.now.slot).effects).items (T.taken trace.new) }
    ensures frame { T.leads_to trace.old trace.new }
    ensures rest { SameRest world.old.files.tree.nodes world.new.files.tree.nodes }
    ensures slots { is_over result ≡ false
        → HasWaited (waits_in (unix_of world.old) fixed.now.slot (Outcome.Call number)) world.old.slots world.new.slots }
    ensures within { world.new.slots.left ≤ world.new.slots.due }
{
    let asked = ask(&world.procs.images, fixed, number);
    let entry = sysent_of(asked.number);
    enter(
        &mut world.procs.images,
        fixed,
        words_passed(&asked, entry.count),
    );
    does_call(world, fixed, entry.call, asked.args, trace)
}

/// Whether an illegal instruction is passed by: SETD, of a process that does nothing about illegal ones.
fn passes_setd(images: &Images, s: Slot, word: u16) -> bool
    requires { HasImage images.now.kept s }
    ensures { (u : Unix) → (process_of u s).u ≡ area_of images.now.kept s → result ≡ passes_setd u s word }
{
    word == SETD && handler(images.area_bytes(s), usize::from(SIGINS)) == 0
}

/// A fault, for which the stack may grow; else it is a signal.
#[cold]
#[inline(never)]
fn fault<T: Trace>(world: &mut World, s: Slot, kind: Kind, trace: &mut T) -> Ending
    requires { IsReady world.old s }
    ensures come { HasCome (board_in world.old) (faults (unix_of world.old) s kind) result world.new }
    ensures ready { is_over result ≡ false → IsReady world.new s }
    ensures covered { is_over result ≡ true → IsCovered world.new }
    ensures items { Took (T.taken trace.old) (logged (board_in world.old)
        (faults (unix_of world.old) s kind).effects).items (T.taken trace.new) }
    ensures frame { T.leads_to trace.old trace.new }
    ensures rest { SameRest world.old.files.tree.nodes world.new.files.tree.nodes }
    ensures slots { world.new.slots ≡ world.old.slots }
{
    match kind {
        Kind::Odd => signal(world, s, SIGBUS, trace),
        Kind::Segment { sp } => grow_stack(world, s, sp, trace),
        Kind::Illegal(word) => {
            if passes_setd(&world.procs.images, s, word) {
                return Ending::Trapped;
            }
            signal(world, s, SIGINS, trace)
        }
        Kind::Bpt => signal(world, s, SIGTRC, trace),
        Kind::Iot => signal(world, s, SIGIOT, trace),
        Kind::Emt => signal(world, s, SIGEMT, trace),
    }
}

/// What an instruction comes to that isn't just done.
#[inline(always)]
pub(crate) fn come_to<T: Trace>(
    world: &mut World,
    fixed: &Fixed,
    outcome: Outcome,
    trace: &mut T,
) -> Ending
    requires fixed { IsFixed world.old.procs.images.kept fixed.now }
    requires ready { IsReady world.old fixed.now.slot }
    requires user { is_user (process_of (unix_of world.old) fixed.now.slot) ≡ true }
    requires waits { CanWait world.old.slots }
    ensures come { HasCome (board_in world.old) (comes_to (unix_of world.old) fixed.now.slot outcome) result world.new }
    ensures good { is_over result ≡ false → IsGood world.new }
    ensures covered { is_over result ≡ true → IsCovered world.new }
    ensures runs { is_over result ≡ false → result ≢ Ending.Ended → world.new.procs.table.running ≡ Some fixed.now.slot }
    ensures items { Took (T.taken trace.old) (logged (board_in world.old)
        (comes_to (unix_of world.old) fixed.now.slot outcome).effects).items (T.taken trace.new) }
    ensures frame { T.leads_to trace.old trace.new }
    ensures rest { SameRest world.old.files.tree.nodes world.new.files.tree.nodes }
    ensures slots { is_over result ≡ false
        → HasWaited (waits_in (unix_of world.old) fixed.now.slot outcome) world.old.slots world.new.slots }
    ensures within { world.new.slots.left ≤ world.new.slots.due }
{
    match outcome {
        Outcome::Next => Ending::Next,
        Outcome::Call(number) => call(world, fixed, number, trace),
        Outcome::Fault(kind) => fault(world, fixed.slot, kind, trace),
    }
}

/// The call that a process has to go on with.
fn pending_of(images: &Images, s: Slot) -> u8
    requires { HasImage images.now.kept s }
    ensures { result ≡ (area_of images.now.kept s).pending }
{
    pending_call(images.area_bytes(s))
}

/// Goes on with a call on files.
fn go_on_files<T: Trace>(world: &mut World, s: Slot, trace: &mut T) -> Ending
    requires ready { IsReady world.old s }
    requires pending { is_on_files (area_of world.old.procs.images.kept s).pending ≡ true }
    ensures come { HasCome (board_in world.old) (did_by (unix_of world.old) s
        (resumes (handed_of (unix_of world.old) (process_of (unix_of world.old) s)) s world.old.procs.table.now)) result world.new }
    ensures ready { IsReady world.new s }
    ensures covered { is_over result ≡ true → IsCovered world.new }
    ensures items { Took (T.taken trace.old) (logged (board_in world.old) (did_by (unix_of world.old) s
        (resumes (handed_of (unix_of world.old) (process_of (unix_of world.old) s)) s world.old.procs.table.now)).effects).items
        (T.taken trace.new) }
    ensures frame { T.leads_to trace.old trace.new }
    ensures rest { SameRest world.old.files.tree.nodes world.new.files.tree.nodes }
    ensures slots { world.new.slots ≡ world.old.slots }
{
    let answer = resume_on_files(world, s);
    pass_on(&world.tape, &mut world.procs.table, trace);
    conclude(world, s, answer, trace)
}

/// Goes on with a sleep or a wait.
fn go_on_waiting<T: Trace>(world: &mut World, s: Slot, trace: &mut T) -> Ending
    requires { IsReady world.old s }
    ensures come { HasCome (board_in world.old) (came_by (unix_of world.old) s
        (resume_proc (world_of (unix_of world.old)) s)) result world.new }
    ensures ready { IsReady world.new s }
    ensures covered { is_over result ≡ true → IsCovered world.new }
    ensures items { Took (T.taken trace.old) (logged (board_in world.old) (came_by (unix_of world.old) s
        (resume_proc (world_of (unix_of world.old)) s)).effects).items (T.taken trace.new) }
    ensures frame { T.leads_to trace.old trace.new }
    ensures rest { SameRest world.old.files.tree.nodes world.new.files.tree.nodes }
    ensures slots { world.new.slots ≡ world.old.slots }
{
    world.files.tree.nodes.see();
    see_table(&world.files.table);
    see_kept(&world.procs.images);
    match resume_proc(&mut world.procs, &mut world.files.tree, s, trace) {
        Ok(answer) => conclude(world, s, answer, trace),
        Err(kind) => Ending::Panic(kind),
    }
}

/// Goes on with the call in which the process slept.
#[inline(never)]
pub(crate) fn resume<T: Trace>(world: &mut World, s: Slot, trace: &mut T) -> Ending
    requires { IsReady world.old s }
    ensures come { HasCome (board_in world.old) (resumed (unix_of world.old) s) result world.new }
    ensures good { IsGood world.new }
    ensures covered { is_over result ≡ true → IsCovered world.new }
    ensures runs { world.new.procs.table.running ≡ Some s }
    ensures alive { result ≢ Ending.Ended }
    ensures items { Took (T.taken trace.old) (logged (board_in world.old) (resumed (unix_of world.old) s).effects).items
        (T.taken trace.new) }
    ensures frame { T.leads_to trace.old trace.new }
    ensures rest { SameRest world.old.files.tree.nodes world.new.files.tree.nodes }
    ensures slots { world.new.slots ≡ world.old.slots }
{
    let pending = pending_of(&world.procs.images, s);
    if pending == DISK_WAIT {
        return end_wait(world, s);
    }
    if is_on_files(pending) {
        return go_on_files(world, s, trace);
    }
    go_on_waiting(world, s, trace)
}
