//! wait(II).
ghost use Rattle.std.specs.Prelude.{◌≡◌, ◌<◌, ◌∷◌, []};
ghost use Rattle.v6_base.specs.Trace.{Took, Log};
ghost use Rattle.fs_nodes.specs.FileSystem.{FileSystem, SameRest};
ghost use Rattle.u_area.specs.declared.area.UArea.{UArea};
ghost use Rattle.u_area.specs.Area.{IsSized, half_bytes};
ghost use Rattle.image_keep.specs.Kept.{with_keeping, HasGrave, IsKept, Nothing};
ghost use Rattle.pick_rules.specs.Table.{IsTable, empty_row, with_row};
ghost use Rattle.pick_rules.specs.Apply.{applied};
ghost use Rattle.proc_tab.specs.Processes.{AreProcesses};
ghost use Rattle.sys_procs.specs.World.{change, without_process};
ghost use Rattle.sys_procs.specs.Wait.{with_times_of, buries, wait_child};
ghost use Rattle.sys_procs.specs.Handed.{AreProcs, Calls, IsAlive, board, handed, process_here};
ghost use Rattle.sys_procs.specs.Done.{HasDone};

use crate::procs::Procs;
use crate::seen::see;
use fs_codec::{long_at, word_at};
use fs_tree::Tree;
use pick_rules::{EMPTY_ROW, Table};
use proc_tab::Child;
use u_area::{STATUS, TIMES, WAIT_CALL, child_times};
use v6_base::{Answer, Chan, Entry, Errno, PanicKind, Slot, Trace};

/// What a process sleeps at that waits for a child: Lions' Commentary, `param.h`.
const PWAIT: i8 = 40;

/// Adds the times of a child and of its children to those of its parent's children, modulo 2^32. Half of the child's u area is
/// kept.
fn add_times(p: &mut Procs, s: Slot, half: &[u8; 512])
    requires { IsAlive p.old s }
    ensures state { (dead : UArea) → IsSized dead → half.now ≡ half_bytes dead → (fs : FileSystem)
        → handed p.new fs ≡ change (handed p.old fs) s (λ q. record q { u = with_times_of q.u dead }) }
    ensures board { board p.new ≡ board p.old }
    ensures alive { IsAlive p.new s }
{
    let user_time = word_at(half, TIMES);
    let system_time = word_at(half, TIMES + 2);
    let child_user = long_at(half, TIMES + 4);
    let child_system = long_at(half, TIMES + 8);
    let [user, system] = child_times(p.area_bytes(s));
    let user = user
        .wrapping_add(u32::from(user_time))
        .wrapping_add(child_user);
    let system = system
        .wrapping_add(u32::from(system_time))
        .wrapping_add(child_system);
    p.put_child_times(s, user, system);
}

/// The status with which a process has ended, of whose u area half is kept.
fn status_of(half: &[u8; 512]) -> u16
    ensures { (dead : UArea) → IsSized dead → half.now ≡ half_bytes dead → result ≡ dead.status }
{
    word_at(half, STATUS)
}

/// Empties a slot of the table.
fn clear_slot(table: &mut Table, s: Slot)
    requires table { IsTable table.old }
    requires slot { s < 50 }
    ensures table { table.new ≡ with_row table.old s empty_row }
    ensures good { IsTable table.new }
{
    table.rows[s as usize] = EMPTY_ROW;
}

/// Makes the slot of a process that has ended free. Half of its u area was kept for its parent.
fn clear(p: &mut Procs, dead: Slot) -> [u8; 512]
    requires agree { AreProcs p.old }
    requires above { 0 < dead }
    requires low { dead < 50 }
    requires grave { HasGrave p.old.images.kept dead }
    requires rows { AreProcesses p.old.rows }
    requires images { IsKept p.old.images.kept }
    ensures half { result ≡ half_bytes (process_here p.old dead).u }
    ensures sized { IsSized (process_here p.old dead).u }
    ensures state { (fs : FileSystem) → handed p.new fs ≡ without_process (handed p.old fs) dead }
    ensures board { board p.new ≡ applied (board p.old) (Entry.Reap dead) }
    ensures images { p.new.images.kept ≡ with_keeping p.old.images.kept dead Nothing }
    ensures agree { AreProcs p.new }
{
    let half = p.images.reap(dead);
    p.rows.clear_row(dead);
    clear_slot(&mut p.table, dead);
    half
}

/// Tells a process of a child that has ended: R0 is the child's pid, R1 its status. The child is gone then.
#[tactic(auto, using(v6_base::proofs::Took::takes))]
fn bury<T: Trace>(p: &mut Procs, s: Slot, dead: Slot, trace: &mut T) -> Answer
    requires alive { IsAlive p.old s }
    requires above { 0 < dead }
    requires low { dead < 50 }
    requires grave { HasGrave p.old.images.kept dead }
    ensures answer { (fs : FileSystem) → result ≡ (buries (handed p.old fs) s dead).answer }
    ensures state { (fs : FileSystem) → handed p.new fs ≡ (buries (handed p.old fs) s dead).state }
    ensures board { board p.new ≡ applied (board p.old) (Entry.Reap dead) }
    ensures items { Took (T.taken trace.old) (Log (Entry.Reap dead) ∷ []) (T.taken trace.new) }
    ensures frame { T.leads_to trace.old trace.new }
    ensures agree { AreProcs p.new }
{
    see(p, s);
    let pid = p.rows.row(dead).pid;
    let half = clear(p, dead);
    add_times(p, s, &half);
    trace.entry(Entry::Reap(dead));
    Answer::Ret {
        r0: pid,
        r1: status_of(&half),
    }
}

/// wait(II): for the lowest of the children that have ended. R0 is its pid, R1 its status, and its times and those of its
/// children are added to those of its parent's children. Where no child has ended yet, the process sleeps until one does.
/// Lions' Commentary, `wait` in `sys1.c`.
///
/// # Errors
///
/// `ECHILD`: the process has no child. `EINTR`: it would sleep, and a signal is due.
#[tactic(auto, using(v6_base::proofs::Took::takes, fs_nodes::proofs::RestLemmas::rest_stays, crate::proofs::Alive::calls_alive))]
pub fn wait_child<T: Trace>(
    p: &mut Procs,
    tree: &mut Tree,
    s: Slot,
    _args: [u16; 4],
    trace: &mut T,
) -> Result<Answer, PanicKind>
    requires { Calls p.old tree.old.nodes s }
    ensures does { HasDone p.old p.new tree.new.nodes result (T.taken trace.old) (T.taken trace.new)
        (wait_child (handed p.old tree.old.nodes) s) }
    ensures frame { T.leads_to trace.old trace.new }
    ensures agree { AreProcs p.new }
    ensures marks { tree.new.marks ≡ tree.old.marks }
    ensures mounts { tree.new.mounts ≡ tree.old.mounts }
    ensures blocks { SameRest tree.old.nodes tree.new.nodes }
{
    see(p, s);
    let pid = p.row(s).pid;
    match p.rows.child(pid) {
        Child::NoChild => Ok(Answer::Fail(Errno::ECHILD)),
        Child::Living => {
            if p.is_due(s) {
                return Ok(Answer::Fail(Errno::EINTR));
            }
            p.put_call(s, WAIT_CALL, &[0; 8]);
            Ok(Answer::Sleep {
                pri: PWAIT,
                chan: Chan::Wait(s),
            })
        }
        Child::Dead(dead) => Ok(bury(p, s, dead, trace)),
    }
}
