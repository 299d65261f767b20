//! The slots that have been taken, who waits for the disk up to one of them, and with which of them the lines send: `iowait`
//! and `iodone` in Lions' Commentary, `bio.c`; `ttstart` and `ttrstrt` there, `tty.c`.
ghost use Rattle.std.specs.Prelude.{◌≡◌, ◌≢◌, ◌<◌, ◌≤◌, ◌+◌, ◌-◌, ◌*◌, ◌%◌, ◌==◌, ◌||◌, ℕ, true, false, not, length, map, None, slice_index, slice_index_or};
ghost use Rattle.v6_base.specs.Trace.{Took, entries_of};
ghost use Rattle.tty_line.specs.Said.{sends};
ghost use Rattle.lines_eight.specs.Told.{each_line};
ghost use Rattle.pick_rules.specs.Table.{row_at, IsTable};
ghost use Rattle.pick_rules.specs.Effects.{Show};
ghost use Rattle.pick_rules.specs.Logged.{logged};
ghost use Rattle.pick_rules.specs.Priority.{pribio};
ghost use Rattle.sys_procs.specs.Resume.{awake};
ghost use Rattle.sys_procs.specs.World.{clock_of};
ghost use Rattle.abstract_unix.specs.Unix.{Unix, process_of, with_process};
ghost use Rattle.abstract_unix.specs.Steps.{returns};
ghost use Rattle.abstract_unix.specs.Calls.{waits_for_disk};
ghost use Rattle.abstract_unix.specs.Turn.{with_slot, waits_until};
ghost use Rattle.abstract_unix.specs.Outside.{turned_to, paced_of};
ghost use Rattle.sys_procs.specs.Agree.{Lives, kind_of_stat, board_of};
ghost use Rattle.sys_procs.specs.Handed.{AreProcs};
ghost use Rattle.sys_procs.specs.Signals.{is_meant};
ghost use Rattle.unix_core.specs.Parts.{unix_of, board_in, system_at, IsGood, IsReady, IsSlotDue, IsSlotEnded, HasCome};
ghost use Rattle.unix_core.specs.Passing.{all_woken};
ghost use Rattle.unix_core.specs.Slots.{passed_in, timing_in, NoneSend, CanWait, IsTimed, IsCounted, HasWaited, processes_of, woken_with, AreDueFrom, NoneInGraves, sent_after, with_sent, slot_items};
ghost use Rattle.unix_core.specs.declared.slots.TheConstants.{NEVER};

use crate::settling::wake;
use crate::world::World;
use abstract_unix::Ending;
use lines_eight::{Lines, show_of};
use pick_rules::{Stat, Table};
use sys_procs::Procs;
use u_area::{DISK_WAIT, NOTHING_PENDING, call_words, pending_call};
use v6_base::{Chan, Slot, Trace};

/// The number of no slot: no run takes so many.
const NEVER: u32 = u32::MAX;

/// What a process sleeps at for the disk: `PRIBIO` in Lions' Commentary, `param.h`.
const PRIBIO: i8 = -50;

/// The slots of a run, counted down to the next with whose end something is due: so a slot costs one decrement.
#[derive(Clone, Copy, Debug, PartialEq, Eq)]
pub(crate) struct Slots {
    /// A call that has read the disk waits for so many slots. 0 is none.
    pub(crate) disk: u32,
    /// The lines send with the end of each so many slots. 0 is none: bytes don't wait.
    pub(crate) pace: u32,
    /// So many slots had been taken when that was set.
    pub(crate) set_at: u32,
    /// So many slots are left up to the one that is due, with that one.
    pub(crate) left: u32,
    /// The number of the slot that is due, the first of a run being 1: before it no wait for the disk ends, and no byte that
    /// waits goes out. `NEVER` is none.
    pub(crate) due: u32,
    /// The number of the slot with which the next wait for the disk ends, or of one before it. `NEVER` is none.
    pub(crate) wake: u32,
}

impl Slots {
    /// No slot has been taken, a transfer takes none, and bytes don't wait.
    pub(crate) fn new() -> Slots
        ensures disk { result.disk ≡ 0 }
        ensures pace { result.pace ≡ 0 }
        ensures set { result.set_at ≡ 0 }
        ensures passed { passed_in result ≡ 0 }
        ensures within { result.left ≤ result.due }
        ensures due { 3000000001 < result.due }
        ensures low { result.due ≤ result.wake }
    {
        Slots {
            disk: 0,
            pace: 0,
            set_at: 0,
            left: NEVER,
            due: NEVER,
            wake: NEVER,
        }
    }

    /// How many slots have been taken.
    #[inline(always)]
    pub(crate) fn passed(&self) -> u32
        requires { self.now.left ≤ self.now.due }
        ensures { result ≡ passed_in self.now }
    {
        self.due - self.left
    }

    /// The number of the slot with whose end a wait ends that begins in this slot.
    fn wait_end(&self) -> u32
        requires within { self.now.left ≤ self.now.due }
        requires fresh { passed_in self.now ≤ 3000000000 }
        requires few { self.now.disk ≤ 999999999 }
        ensures { result ≡ passed_in self.now + 1 + self.now.disk }
    {
        self.passed() + 1 + self.disk
    }

    /// Something is due when so many slots more have been taken, if nothing is before.
    fn add(&mut self, more: u32)
        requires within { self.old.left ≤ self.old.due }
        requires some { 0 < more }
        requires before { 0 < self.old.left }
        ensures ends { self.new.due ≤ passed_in self.old + more }
        ensures sooner { self.new.due ≤ self.old.due }
        ensures later { passed_in self.old < self.new.due }
        ensures passed { passed_in self.new ≡ passed_in self.old }
        ensures within { self.new.left ≤ self.new.due }
        ensures wake { self.new.wake ≡ self.old.wake }
        ensures disk { self.new.disk ≡ self.old.disk }
        ensures pace { self.new.pace ≡ self.old.pace }
        ensures set { self.new.set_at ≡ self.old.set_at }
    {
        if more < self.left {
            self.due -= self.left - more;
            self.left = more;
        }
    }

    /// A wait for the disk ends with the slot of this number.
    fn add_wait(&mut self, end: u32)
        requires within { self.old.left ≤ self.old.due }
        requires low { self.old.due ≤ self.old.wake }
        requires ahead { passed_in self.old < end }
        requires before { 0 < self.old.left }
        ensures ends { self.new.wake ≤ end }
        ensures sooner { self.new.wake ≤ self.old.wake }
        ensures low { self.new.due ≤ self.new.wake }
        ensures later { passed_in self.old < self.new.due }
        ensures passed { passed_in self.new ≡ passed_in self.old }
        ensures within { self.new.left ≤ self.new.due }
        ensures disk { self.new.disk ≡ self.old.disk }
        ensures pace { self.new.pace ≡ self.old.pace }
        ensures set { self.new.set_at ≡ self.old.set_at }
    {
        let more = end - self.passed();
        self.add(more);
        if end < self.wake {
            self.wake = end;
        }
    }

    /// Sets after how many slots the lines send, counted from now on.
    fn set_pace(&mut self, n: u32)
        requires within { self.old.left ≤ self.old.due }
        ensures timing { timing_in self.new ≡ record (timing_in self.old) { pace = n; since = 0 } }
        ensures left { self.new.left ≡ self.old.left }
        ensures due { self.new.due ≡ self.old.due }
        ensures wake { self.new.wake ≡ self.old.wake }
        ensures set { self.new.set_at ≡ passed_in self.old }
    {
        self.pace = n;
        self.set_at = self.passed();
    }

    /// How many slots the last send lies back, when the slot of this number has been taken.
    fn behind(&self, passed: u32) -> u32
        requires set { self.now.set_at ≤ passed }
        requires paced { self.now.pace ≢ 0 }
        ensures behind { result ≡ (passed - self.now.set_at) % self.now.pace }
        ensures few { result < self.now.pace }
    {
        (passed - self.set_at) % self.pace
    }

    /// The next slot with which the lines send is due, if nothing is before. `behind` is how many slots the last send lies
    /// back.
    fn add_send(&mut self, behind: u32)
        requires within { self.old.left ≤ self.old.due }
        requires before { 0 < self.old.left }
        requires set { self.old.set_at ≤ passed_in self.old }
        requires behind { behind ≡ (passed_in self.old - self.old.set_at) % self.old.pace }
        requires few { behind < self.old.pace }
        ensures timing { timing_in self.new ≡ timing_in self.old }
        ensures wake { self.new.wake ≡ self.old.wake }
        ensures set { self.new.set_at ≡ self.old.set_at }
        ensures within { self.new.left ≤ self.new.due }
        ensures sooner { self.new.due ≤ self.old.due }
        ensures later { passed_in self.old < self.new.due }
        ensures sends { NoneSend (passed_in self.new) self.new }
    {
        self.add(self.pace - behind);
    }
}

/// Lets a process that has read the disk wait for it.
#[cold]
#[inline(never)]
pub(crate) fn wait_for_disk(world: &mut World, s: Slot) -> Ending
    requires ready { IsReady world.old s }
    requires waits { CanWait world.old.slots }
    requires some { world.old.slots.disk ≢ 0 }
    ensures unix { unix_of world.new ≡ waits_for_disk (unix_of world.old) s }
    ensures board { board_in world.new ≡ board_in world.old }
    ensures ending { result ≡ Ending.Slept pribio (Chan.Disk s) }
    ensures ready { IsReady world.new s }
    ensures slots { HasWaited true world.old.slots world.new.slots }
    ensures files { world.new.files ≡ world.old.files }
{
    let end = world.slots.wait_end();
    let call = [0, 0, 0, 0, (end / 65536) as u16, (end % 65536) as u16, 0, 0];
    world.procs.images.set_call(s, DISK_WAIT, &call);
    world.slots.add_wait(end);
    Ending::Slept {
        pri: PRIBIO,
        chan: Chan::Disk(s),
    }
}

/// A process has waited for the disk: its call is done.
pub(crate) fn end_wait(world: &mut World, s: Slot) -> Ending
    requires { IsReady world.old s }
    ensures come { HasCome (board_in world.old)
        (returns (with_process (unix_of world.old) s (awake (process_of (unix_of world.old) s)))) result world.new }
    ensures ready { IsReady world.new s }
    ensures slots { world.new.slots ≡ world.old.slots }
    ensures files { world.new.files ≡ world.old.files }
    ensures trapped { result ≡ Ending.Trapped }
{
    world.procs.images.set_call(s, NOTHING_PENDING, &[0; 8]);
    Ending::Trapped
}

/// What the table says of a slot.
fn stat_of(procs: &Procs, s: Slot) -> Stat
    requires { s < 50 }
    ensures { result ≡ (row_at procs.now.table s).stat }
{
    procs.table.rows[s as usize].stat
}

/// Whether a slot has a process that hasn't ended.
fn lives(stat: Stat) -> bool
    ensures yes { result ≡ true → kind_of_stat stat ≡ Lives }
    ensures no { result ≡ false → kind_of_stat stat ≢ Lives }
{
    match stat {
        Stat::Empty | Stat::Zombie => false,
        Stat::Sleeping | Stat::Waiting | Stat::Ready => true,
    }
}

/// The number of the slot with whose end the wait ends that is kept of a call.
fn end_kept(call: &[u16; 8]) -> u32
    ensures { result ≡ 65536 * slice_index call.now 4 + slice_index call.now 5 }
{
    65536 * u32::from(call[4]) + u32::from(call[5])
}

/// The number of the slot with whose end a process waits no more for the disk: `NEVER` where it doesn't wait for it. Who has
/// ended waits for nothing.
fn disk_end(procs: &Procs, s: Slot) -> u32
    requires agree { AreProcs procs.now }
    requires above { 0 < s }
    requires slot { s < 50 }
    requires graves { NoneInGraves (processes_of procs.now) }
    ensures { (n : ℕ) → n < NEVER
        → is_meant (waits_until n) s (slice_index_or (processes_of procs.now) s None) ≡ (result == n) }
{
    if !lives(stat_of(procs, s)) {
        return NEVER;
    }
    let area = procs.images.area_bytes(s);
    if pending_call(area) != DISK_WAIT {
        return NEVER;
    }
    end_kept(&call_words(area))
}

/// Who was woken by the disk with the end of a slot, and with which slot that comes again.
#[derive(Clone, Copy, Debug, PartialEq, Eq)]
struct Woken {
    any: bool,
    next: u32,
}

impl Woken {
    /// The same with one wait more, which ends with the slot of number `end`, where that of number `passed` has been taken.
    fn with(self, end: u32, passed: u32) -> Woken
        requires { passed < self.next }
        ensures any { result.any ≡ (self.any || (end == passed)) }
        ensures next { passed < result.next }
        ensures sooner { result.next ≤ self.next }
        ensures due { passed < end → result.next ≤ end }
    {
        Woken {
            any: self.any || end == passed,
            next: if passed < end && end < self.next {
                end
            } else {
                self.next
            },
        }
    }
}

/// Wakes those who wait for the disk up to the end of the slot of this number, the lowest first, and finds the next with which
/// a wait ends.
fn wake_disks<T: Trace>(procs: &mut Procs, passed: u32, trace: &mut T) -> Woken
    requires agree { AreProcs procs.old }
    requires graves { NoneInGraves (processes_of procs.old) }
    requires fresh { passed < NEVER }
    ensures agree { AreProcs procs.new }
    ensures others { procs.new ≡ record procs.old { table = procs.new.table } }
    ensures same { result.any ≡ false → procs.new ≡ procs.old }
    ensures running { procs.new.table.running ≡ procs.old.table.running }
    ensures clock { clock_of procs.new.table ≡ clock_of procs.old.table }
    ensures board { board_of procs.new.table procs.new.images.kept ≡ (logged {W = Unix}
        (board_of procs.old.table procs.old.images.kept) (map Show (woken_with passed (processes_of procs.old)))).board }
    ensures any { result.any ≡ not (length (woken_with passed (processes_of procs.old)) == 0) }
    ensures next { passed < result.next }
    ensures due { AreDueFrom result.next passed (processes_of procs.old) }
    ensures items { Took (T.taken trace.old) (woken_with passed (processes_of procs.old)) (T.taken trace.new) }
    ensures frame { T.leads_to trace.old trace.new }
{
    let _kernel = procs.rows.in_use(0);
    let mut woken = Woken {
        any: false,
        next: NEVER,
    };
    for s in 1..50 {
        let end = disk_end(procs, s);
        wake(&mut procs.table, end == passed, Chan::Disk(s), trace);
        woken = woken.with(end, passed);
    }
    woken
}

/// Whether one of the two is so.
fn either(a: bool, b: bool) -> bool
    ensures { result ≡ (a || b) }
{
    a || b
}

/// The lines send, the lowest first, and after each who waits for room on it is woken, where that is called for. Tells whether
/// anybody is.
#[inline(always)]
fn send_lines<T: Trace>(lines: &mut Lines, table: &mut Table, trace: &mut T) -> bool
    requires table { IsTable table.old }
    ensures lines { lines.new ≡ (each_line sends lines.old).lines }
    ensures any { result ≡ (each_line sends lines.old).wakes }
    ensures good { IsTable table.new }
    ensures table { table.new ≡ all_woken table.old (entries_of (each_line sends lines.old).items) }
    ensures same { result ≡ false → table.new ≡ table.old }
    ensures items { Took (T.taken trace.old) (each_line sends lines.old).items (T.taken trace.new) }
    ensures frame { T.leads_to trace.old trace.new }
{
    let mut any = false;
    for l in 0..lines.count() {
        let show = lines.send(l, trace);
        wake(table, show, show_of(l), trace);
        any = either(any, show);
    }
    any
}

/// Turns the pace of all lines on or off, the lowest first, and after each wakes who waits for room on it, where that is called
/// for. Tells whether anybody is woken.
fn turn_lines<T: Trace>(lines: &mut Lines, on: bool, table: &mut Table, trace: &mut T) -> bool
    requires table { IsTable table.old }
    ensures lines { lines.new ≡ (each_line (turned_to on) lines.old).lines }
    ensures any { result ≡ (each_line (turned_to on) lines.old).wakes }
    ensures good { IsTable table.new }
    ensures table { table.new ≡ all_woken table.old (entries_of (each_line (turned_to on) lines.old).items) }
    ensures same { result ≡ false → table.new ≡ table.old }
    ensures items { Took (T.taken trace.old) (each_line (turned_to on) lines.old).items (T.taken trace.new) }
    ensures frame { T.leads_to trace.old trace.new }
{
    let mut any = false;
    for l in 0..lines.count() {
        let show = lines.set_pace(l, on, trace);
        wake(table, show, show_of(l), trace);
        any = either(any, show);
    }
    any
}

/// Where bytes wait to go out, the next slot with which the lines send is due. `behind` is how many slots the last send lies
/// back.
#[inline(always)]
fn renew_by(world: &mut World, behind: u32)
    requires timed { IsTimed world.old.slots (unix_of world.old) }
    requires behind { behind ≡ (passed_in world.old.slots - world.old.slots.set_at) % world.old.slots.pace }
    requires few { behind < world.old.slots.pace }
    ensures unix { unix_of world.new ≡ unix_of world.old }
    ensures good { IsGood world.old → IsGood world.new }
    ensures counted { IsCounted world.new.slots (unix_of world.new) }
    ensures others { world.new ≡ record world.old { slots = world.new.slots } }
{
    if world.files.lines.holds() {
        world.slots.add_send(behind);
    }
}

/// The same, where it isn't known how far the last send lies back. The lines have a pace.
#[cold]
#[inline(never)]
fn renew_paced(world: &mut World)
    requires timed { IsTimed world.old.slots (unix_of world.old) }
    requires paced { world.old.slots.pace ≢ 0 }
    ensures unix { unix_of world.new ≡ unix_of world.old }
    ensures good { IsGood world.old → IsGood world.new }
    ensures counted { IsCounted world.new.slots (unix_of world.new) }
    ensures others { world.new ≡ record world.old { slots = world.new.slots } }
{
    let passed = world.slots.passed();
    let behind = world.slots.behind(passed);
    renew_by(world, behind);
}

/// Where bytes wait to go out, the next slot with which the lines send is due. It follows each change of a line with which
/// bytes may come to wait.
#[inline(always)]
pub(crate) fn renew(world: &mut World)
    requires timed { IsTimed world.old.slots (unix_of world.old) }
    ensures unix { unix_of world.new ≡ unix_of world.old }
    ensures good { IsGood world.old → IsGood world.new }
    ensures counted { IsCounted world.new.slots (unix_of world.new) }
    ensures others { world.new ≡ record world.old { slots = world.new.slots } }
{
    if world.slots.pace != 0 {
        renew_paced(world);
    }
}

/// Sets after how many slots the lines send, counted from now on: 0 is none. Where bytes waited then they go out, and who waits
/// for room is woken. Tells whether anybody is.
pub(crate) fn set_pace<T: Trace>(world: &mut World, n: u32, trace: &mut T) -> bool
    requires good { IsGood world.old }
    requires counted { IsCounted world.old.slots (unix_of world.old) }
    ensures unix { unix_of world.new ≡ (paced_of (system_at world.old) n).unix }
    ensures board { board_in world.new ≡ (paced_of (system_at world.old) n).log.board }
    ensures settles { result ≡ (paced_of (system_at world.old) n).settles }
    ensures good { IsGood world.new }
    ensures counted { IsCounted world.new.slots (unix_of world.new) }
    ensures running { world.new.procs.table.running ≡ world.old.procs.table.running }
    ensures tree { world.new.files.tree ≡ world.old.files.tree }
    ensures images { world.new.procs.images ≡ world.old.procs.images }
    ensures others { world.new ≡ record world.old {
      files = record world.old.files { lines = world.new.files.lines };
      procs = world.new.procs;
      slots = world.new.slots;
    } }
    ensures same { result ≡ false → world.new.procs ≡ world.old.procs }
    ensures items { Took (T.taken trace.old) (paced_of (system_at world.old) n).log.items (T.taken trace.new) }
    ensures frame { T.leads_to trace.old trace.new }
{
    world.slots.set_pace(n);
    let any = turn_lines(
        &mut world.files.lines,
        n != 0,
        &mut world.procs.table,
        trace,
    );
    renew(world);
    any
}

/// The lines send with the end of the slot of this number, where it is one of those with which they do, and where bytes wait
/// then the next of those is due. Tells whether anybody is woken.
#[inline(always)]
fn send_after<T: Trace>(world: &mut World, passed: u32, trace: &mut T) -> bool
    requires good { IsGood world.old }
    requires timed { IsTimed world.old.slots (unix_of world.old) }
    requires passed { passed_in world.old.slots ≡ passed }
    ensures unix { unix_of world.new ≡ with_sent (unix_of world.old) }
    ensures board { board_in world.new
        ≡ (logged {W = Unix} (board_in world.old) (map Show (sent_after (unix_of world.old)).items)).board }
    ensures any { result ≡ (sent_after (unix_of world.old)).wakes }
    ensures good { IsGood world.new }
    ensures counted { IsCounted world.new.slots (unix_of world.new) }
    ensures running { world.new.procs.table.running ≡ world.old.procs.table.running }
    ensures others { world.new ≡ record world.old {
      files = record world.old.files { lines = world.new.files.lines };
      procs = record world.old.procs { table = world.new.procs.table };
      slots = world.new.slots;
    } }
    ensures same { result ≡ false → world.new.procs ≡ world.old.procs }
    ensures items { Took (T.taken trace.old) (sent_after (unix_of world.old)).items (T.taken trace.new) }
    ensures frame { T.leads_to trace.old trace.new }
{
    if world.slots.pace == 0 {
        return false;
    }
    let behind = world.slots.behind(passed);
    if behind != 0 {
        renew_paced(world);
        return false;
    }
    let any = send_lines(&mut world.files.lines, &mut world.procs.table, trace);
    renew_by(world, 0);
    any
}

/// The slot that was due has been taken, and a wait for the disk may end with it: who has waited up to its end is woken, and
/// where the lines send with its end they do. Tells whether anybody is woken.
#[cold]
#[inline(never)]
fn reach_wake<T: Trace>(world: &mut World, trace: &mut T) -> bool
    requires { IsSlotDue world.old }
    ensures ended { IsSlotEnded (unix_of world.old) world.old world.new result }
    ensures items { Took (T.taken trace.old) (slot_items (unix_of world.old)) (T.taken trace.new) }
    ensures frame { T.leads_to trace.old trace.new }
{
    let passed = world.slots.due;
    let woken = wake_disks(&mut world.procs, passed, trace);
    world.slots.due = woken.next;
    world.slots.left = woken.next - passed;
    world.slots.wake = woken.next;
    let sent = send_after(world, passed, trace);
    either(woken.any, sent)
}

/// The slot that was due has been taken: who has waited for the disk up to its end is woken, and where the lines send with its
/// end they do. Tells whether anybody is woken. Where no wait ends with it nobody is looked at.
#[inline(always)]
pub(crate) fn reach<T: Trace>(world: &mut World, trace: &mut T) -> bool
    requires { IsSlotDue world.old }
    ensures ended { IsSlotEnded (unix_of world.old) world.old world.new result }
    ensures items { Took (T.taken trace.old) (slot_items (unix_of world.old)) (T.taken trace.new) }
    ensures frame { T.leads_to trace.old trace.new }
{
    let passed = world.slots.due;
    let wake = world.slots.wake;
    if passed < wake {
        world.slots.due = wake;
        world.slots.left = wake - passed;
        return send_after(world, passed, trace);
    }
    reach_wake(world, trace)
}

/// The same out of line, behind the slot of a turn.
#[cold]
#[inline(never)]
fn reach_apart<T: Trace>(world: &mut World, trace: &mut T) -> bool
    requires { IsSlotDue world.old }
    ensures ended { IsSlotEnded (unix_of world.old) world.old world.new result }
    ensures items { Took (T.taken trace.old) (slot_items (unix_of world.old)) (T.taken trace.new) }
    ensures frame { T.leads_to trace.old trace.new }
{
    reach(world, trace)
}

/// Counts a slot that has been taken, wakes who has waited for the disk up to its end, and lets the lines send where they do
/// with its end. Tells whether anybody is woken.
#[inline(always)]
pub(crate) fn count<T: Trace>(world: &mut World, trace: &mut T) -> bool
    requires good { IsGood world.old }
    requires counted { IsCounted world.old.slots (unix_of world.old) }
    requires fresh { (unix_of world.old).timing.passed ≤ 3000000000 }
    ensures ended { IsSlotEnded (with_slot (unix_of world.old)) world.old world.new result }
    ensures items { Took (T.taken trace.old) (slot_items (with_slot (unix_of world.old))) (T.taken trace.new) }
    ensures frame { T.leads_to trace.old trace.new }
{
    world.slots.left -= 1;
    if world.slots.left == 0 {
        return reach_apart(world, trace);
    }
    false
}

/// Counts the slot of a turn, with which bytes may have come to wait.
#[inline(always)]
pub(crate) fn count_turn<T: Trace>(world: &mut World, trace: &mut T) -> bool
    requires good { IsGood world.old }
    requires timed { IsTimed world.old.slots (unix_of world.old) }
    requires fresh { (unix_of world.old).timing.passed ≤ 3000000000 }
    ensures ended { IsSlotEnded (with_slot (unix_of world.old)) world.old world.new result }
    ensures items { Took (T.taken trace.old) (slot_items (with_slot (unix_of world.old))) (T.taken trace.new) }
    ensures frame { T.leads_to trace.old trace.new }
{
    renew(world);
    count(world, trace)
}
