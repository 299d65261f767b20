//! exit(II).
ghost use Rattle.std.specs.Prelude.{◌≡◌, ◌<◌, ◌≤◌, ◌∷◌, ℕ, count_by, slice_index, [], ◌==◌, is_none, if◌then◌else◌, Some, None};
ghost use Rattle.std.specs.Option.{unwrap_or};
ghost use Rattle.v6_base.specs.Trace.{Took, Log};
ghost use Rattle.fs_nodes.specs.FileSystem.{FileSystem, SameRest};
ghost use Rattle.pick_rules.specs.Table.{IsTable};
ghost use Rattle.pick_rules.specs.Sleepers.{wakeup};
ghost use Rattle.pick_rules.specs.Apply.{change_row};
ghost use Rattle.proc_tab.specs.Processes.{IsUsed, row_at, passes, lowest, with_change, dead};
ghost use Rattle.proc_tab.specs.Pids.{has_pid};
ghost use Rattle.proc_tab.specs.Children.{orphans_adopted};
ghost use Rattle.image_keep.specs.Kept.{text_of};
ghost use Rattle.sys_procs.specs.TextTable.{is_text_of};
ghost use Rattle.sys_procs.specs.World.{texts_in};
ghost use Rattle.sys_procs.specs.Exit.{leaves, dies, end_proc, exit_now};
ghost use Rattle.sys_procs.specs.Handed.{AreProcs, Calls, IsAlive, IsMarked, board, handed};
ghost use Rattle.sys_procs.specs.Done.{HasDone, HasEnded};

use crate::procs::Procs;
use crate::seen::see;
use crate::texts::leave_text;
use fs_tree::{Tree, let_go};
use pick_rules::{Stat, Table};
use proc_tab::Rows;
use u_area::{directory, register};
use v6_base::{Answer, Chan, Entry, PanicKind, Pid, Place, Slot, Trace};

/// The slot of process 1, whose children those become whose parent has ended.
const INIT: Slot = 1;

/// What each signal does to a process that has ended: nothing. There is no signal 0.
const IGNORED: [u16; 20] = [0, 1, 1, 1, 1, 1, 1, 1, 1, 1, 1, 1, 1, 1, 1, 1, 1, 1, 1, 1];

/// Leaves the directory of a process, ignores all its signals, and keeps the status for its parent.
fn leave(p: &mut Procs, tree: &mut Tree, s: Slot, status: u16)
    requires { Calls p.old tree.old.nodes s }
    ensures state { handed p.new tree.new.nodes ≡ leaves (handed p.old tree.old.nodes) s status }
    ensures board { board p.new ≡ board p.old }
    ensures alive { IsAlive p.new s }
    ensures texts { p.new.images.kept.texts ≡ p.old.images.kept.texts }
    ensures referred { (ino : ℕ) → count_by (is_text_of ino) (texts_in p.new.images.kept) ≤ slice_index tree.new.nodes.references ino }
    ensures marks { tree.new.marks ≡ tree.old.marks }
    ensures mounts { tree.new.mounts ≡ tree.old.mounts }
    ensures blocks { SameRest tree.old.nodes tree.new.nodes }
{
    let dir = directory(p.area_bytes(s));
    let_go(&mut tree.nodes, dir, p.table.now);
    p.put_end(s, status, &IGNORED);
}

/// The slot of a process by its pid, where one has it. Process 0 has the pid 0.
fn slot_of(rows: &Rows, pid: Pid) -> Option<Slot>
    ensures { result ≡ (if pid == 0 then Some 0 else lowest (passes (has_pid pid)) rows.now.slots) }
{
    if pid == 0 {
        return Some(0);
    }
    rows.slot_of(pid)
}

/// Makes the pid of a parent 1, where no slot has it.
fn adopt_strays(rows: &mut Rows, ppid: Pid, parent: Option<Slot>)
    ensures { rows.new ≡ (if is_none parent then orphans_adopted rows.old ppid else rows.old) }
{
    if parent.is_none() {
        rows.adopt(ppid);
    }
}

/// Makes the row of a slot that of a process that has ended, of which a block of the swap area is kept. Nobody runs then.
fn end_slot(table: &mut Table, s: Slot, block: u16)
    requires table { IsTable table.old }
    requires slot { s < 50 }
    ensures table { table.new ≡ record (change_row table.old s (λ row. record row {
      stat = Stat.Zombie;
      channel = None;
      place = Some (Place.Swap block);
    })) { running = None } }
    ensures good { IsTable table.new }
{
    let row = &mut table.rows[s as usize];
    row.stat = Stat::Zombie;
    row.channel = None;
    row.place = Some(Place::Swap(block));
    table.running = None;
}

/// Makes the process in a slot one that has ended, of which a block of the swap area is kept; wakes process 1 and the
/// parent, where they wait for a child; and gives its children to process 1, which is the parent where no slot is.
#[tactic(auto, using(v6_base::proofs::Took::takes))]
fn end_row<T: Trace>(p: &mut Procs, s: Slot, block: u16, parent: Option<Slot>, trace: &mut T)
    requires table { IsTable p.old.table }
    requires used { IsUsed p.old.rows s }
    requires slot { s < 50 }
    ensures table { p.new.table ≡ wakeup (wakeup (record (change_row p.old.table s (λ row. record row {
      stat = Stat.Zombie;
      channel = None;
      place = Some (Place.Swap block);
    })) { running = None })
        (Chan.Wait 1)) (Chan.Wait (unwrap_or parent 1)) }
    ensures rows { p.new.rows ≡ orphans_adopted
        (if is_none parent then orphans_adopted (with_change p.old.rows s dead) (row_at p.old.rows s).ppid
        else with_change p.old.rows s dead) (row_at p.old.rows s).pid }
    ensures images { p.new.images.kept ≡ p.old.images.kept }
    ensures switches { p.new.switches ≡ p.old.switches }
    ensures items { Took (T.taken trace.old) (Log (Entry.Exit s block) ∷ Log (Entry.Wake (Chan.Wait 1))
        ∷ Log (Entry.Wake (Chan.Wait (unwrap_or parent 1))) ∷ []) (T.taken trace.new) }
    ensures frame { T.leads_to trace.old trace.new }
{
    let row = *p.rows.row(s);
    end_slot(&mut p.table, s, block);
    p.rows.end_row(s);
    trace.entry(Entry::Exit { slot: s, block });
    p.table.wake(Chan::Wait(INIT), trace);
    p.table.wake(Chan::Wait(parent.unwrap_or(INIT)), trace);
    adopt_strays(&mut p.rows, row.ppid, parent);
    p.rows.adopt(row.pid);
}

/// Makes the process in a slot a zombie: its image is given back, and half of its u area is kept in a block of the swap
/// area, where there is one.
#[tactic(auto, using(v6_base::proofs::Took::takes))]
fn die<T: Trace>(p: &mut Procs, s: Slot, trace: &mut T) -> Result<(), PanicKind>
    requires alive { IsAlive p.old s }
    requires no_text { text_of p.old.images.kept s ≡ None }
    ensures does { (fs : FileSystem) → HasEnded p.old p.new fs result (T.taken trace.old) (T.taken trace.new)
        (dies (handed p.old fs) s) }
    ensures frame { T.leads_to trace.old trace.new }
    ensures agree { AreProcs p.new }
    ensures texts { p.new.images.kept.texts ≡ p.old.images.kept.texts }
{
    see(p, s);
    let row = p.row(s);
    let parent = slot_of(&p.rows, row.ppid);
    match p.images.end(s) {
        Ok(block) => {
            end_row(p, s, block, parent, trace);
            Ok(())
        }
        Err(_) => {
            trace.entry(Entry::Panic(PanicKind::Zombie));
            Err(PanicKind::Zombie)
        }
    }
}

/// Ends a process with a status, which wait(II) gives its parent; its files are closed already. exit(II); Lions'
/// Commentary, `exit` in `sys1.c`.
///
/// # Errors
///
/// `Zombie`: the swap area has no block for what is kept of the process. The system stops.
pub fn end_proc<T: Trace>(
    p: &mut Procs,
    tree: &mut Tree,
    s: Slot,
    status: u16,
    trace: &mut T,
) -> Result<(), PanicKind>
    requires calls { Calls p.old tree.old.nodes s }
    requires marks { IsMarked p.old tree.old.marks }
    ensures does { HasEnded p.old p.new tree.new.nodes result (T.taken trace.old) (T.taken trace.new)
        (end_proc (handed p.old tree.old.nodes) s status) }
    ensures frame { T.leads_to trace.old trace.new }
    ensures agree { AreProcs p.new }
    ensures marks { IsMarked p.new tree.new.marks }
    ensures mounts { tree.new.mounts ≡ tree.old.mounts }
    ensures blocks { SameRest tree.old.nodes tree.new.nodes }
{
    leave(p, tree, s, status);
    leave_text(p, tree, s, trace);
    die(p, s, trace)
}

/// exit(II): ends the process with a status whose high byte is the low byte of R0; its files are closed already.
///
/// # Errors
///
/// `Zombie`: the swap area has no block for what is kept of the process. The system stops.
pub fn exit_now<T: Trace>(
    p: &mut Procs,
    tree: &mut Tree,
    s: Slot,
    _args: [u16; 4],
    trace: &mut T,
) -> Result<Answer, PanicKind>
    requires calls { Calls p.old tree.old.nodes s }
    requires marks { IsMarked p.old tree.old.marks }
    ensures does { HasDone p.old p.new tree.new.nodes result (T.taken trace.old) (T.taken trace.new)
        (exit_now (handed p.old tree.old.nodes) s) }
    ensures frame { T.leads_to trace.old trace.new }
    ensures agree { AreProcs p.new }
    ensures marks { IsMarked p.new tree.new.marks }
    ensures mounts { tree.new.mounts ≡ tree.old.mounts }
    ensures blocks { SameRest tree.old.nodes tree.new.nodes }
{
    let area = p.area_bytes(s);
    let r0 = register(area, 0);
    let r1 = register(area, 1);
    match end_proc(p, tree, s, 256 * (r0 % 256), trace) {
        Ok(()) => Ok(Answer::Ret { r0, r1 }),
        Err(kind) => Err(kind),
    }
}
