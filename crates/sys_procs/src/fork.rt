//! fork(II).
ghost use Rattle.std.specs.Prelude.{◌≡◌, ◌≢◌, ◌<◌, ◌≤◌, ℕ, is_none, slice_index, Some};
ghost use Rattle.fs_nodes.specs.FileSystem.{FileSystem, SameRest};
ghost use Rattle.fs_tree.specs.Finding.{inodes_of, with_reference};
ghost use Rattle.pick_rules.specs.Table.{IsTable, row_at, child_row};
ghost use Rattle.proc_tab.specs.Processes.{lowest};
ghost use Rattle.proc_tab.specs.Pids.{forked};
ghost use Rattle.sys_procs.specs.Process.{register, with_register};
ghost use Rattle.sys_procs.specs.World.{change};
ghost use Rattle.sys_procs.specs.Fork.{past_word, fork_into, fork_one};
ghost use Rattle.sys_procs.specs.inside.Seats.{with_image_row};
ghost use Rattle.sys_procs.specs.Handed.{AreProcs, Calls, IsAlive, board, handed, process_here};
ghost use Rattle.sys_procs.specs.Done.{HasDone};

use crate::procs::Procs;
use crate::seen::see;
use fs_tree::{Tree, refer_again};
use pick_rules::{Stat, Table, TableRow};
use proc_tab::Rows;
use u_area::{directory, register};
use v6_base::{Answer, Entry, Errno, PanicKind, Place, Slot, Trace};

/// A parent passes the word in which its child begins.
fn pass_word(p: &mut Procs, s: Slot)
    requires { IsAlive p.old s }
    ensures state { (fs : FileSystem) → handed p.new fs ≡ change (handed p.old fs) s past_word }
    ensures board { board p.new ≡ board p.old }
    ensures alive { IsAlive p.new s }
{
    let pc = register(p.area_bytes(s), 7).wrapping_add(2);
    p.put_register(s, 7, pc);
}

/// The row of a new child, whose image stands at a place: it can run, and has its parent's nice, text and size.
fn child_row(parent: TableRow, place: Place) -> TableRow
    ensures { result ≡ record (child_row parent) { size = parent.size; place = Some place } }
{
    TableRow {
        stat: Stat::Ready,
        pri: 0,
        cpu: 0,
        time: 0,
        nice: parent.nice,
        size: parent.size,
        text: parent.text,
        place: Some(place),
        channel: None,
        calling: false,
    }
}

/// Gives the child of a slot its own slot in the table. Where its image is in the swap area, the swapper is told.
fn add_row(table: &mut Table, s: Slot, child: Slot, place: Place)
    requires table { IsTable table.old }
    requires slot { s < 50 }
    requires child { child < 50 }
    ensures table { table.new ≡ with_image_row table.old child
        (record (child_row (row_at table.old s)) { size = (row_at table.old s).size; place = Some place }) place }
    ensures good { IsTable table.new }
{
    let parent = table.rows[s as usize];
    table.rows[child as usize] = child_row(parent, place);
    if let Place::Swap(_) = place {
        table.tell_swapper();
    }
}

/// Lets a child and its parent go on: each in its own u area, and both in the same directory. R0 is the child's pid.
fn go_on(p: &mut Procs, tree: &mut Tree, s: Slot, child: Slot) -> Answer
    requires parent { IsAlive p.old s }
    requires child { IsAlive p.old child }
    requires apart { s ≢ child }
    requires referenced { 0 < slice_index tree.old.nodes.references (process_here p.old s).u.dir }
    requires few { (ino : ℕ) → slice_index tree.old.nodes.references ino ≤ 65500 }
    ensures answer { result ≡ Answer.Ret (process_here p.old child).row.pid (register (process_here p.old s) 1) }
    ensures state { handed p.new tree.new.nodes
        ≡ record (change (change (handed p.old tree.old.nodes) child (λ q.
        record (with_register q 0 (process_here p.old s).row.pid) {
          u = record (with_register q 0 (process_here p.old s).row.pid).u {
            user_time = 0;
            system_time = 0;
            child_user = 0;
            child_system = 0;
          };
        })) s past_word) {
          inodes = with_reference (inodes_of tree.old.nodes) (process_here p.old s).u.dir;
        } }
    ensures board { board p.new ≡ board p.old }
    ensures agree { AreProcs p.new }
    ensures marks { tree.new.marks ≡ tree.old.marks }
    ensures mounts { tree.new.mounts ≡ tree.old.mounts }
    ensures blocks { SameRest tree.old.nodes tree.new.nodes }
{
    let r0 = p.row(child).pid;
    let parent = p.row(s).pid;
    let area = p.area_bytes(s);
    let dir = directory(area);
    let r1 = register(area, 1);
    p.put_register(child, 0, parent);
    p.clear_times(child);
    pass_word(p, s);
    refer_again(&mut tree.nodes, dir);
    Answer::Ret { r0, r1 }
}

/// Makes a child in a free slot, with the rows that it gives.
///
/// # Errors
///
/// `Swap`: neither core nor the swap area has room for it. Nothing but the log changes then.
#[tactic(auto, using(v6_base::proofs::Took::takes))]
fn fork_into<T: Trace>(
    p: &mut Procs,
    tree: &mut Tree,
    s: Slot,
    child: Slot,
    rows: &Rows,
    trace: &mut T,
) -> Result<Answer, PanicKind>
    requires calls { Calls p.old tree.old.nodes s }
    requires free { lowest is_none p.old.rows.slots ≡ Some child }
    requires rows { rows.now ≡ forked p.old.rows s (Some child) }
    ensures does { HasDone p.old p.new tree.new.nodes result (T.taken trace.old) (T.taken trace.new)
        (fork_into (handed p.old tree.old.nodes) s (Some child)) }
    ensures frame { T.leads_to trace.old trace.new }
    ensures agree { AreProcs p.new }
    ensures marks { tree.new.marks ≡ tree.old.marks }
    ensures mounts { tree.new.mounts ≡ tree.old.mounts }
    ensures blocks { SameRest tree.old.nodes tree.new.nodes }
{
    see(p, s);
    match p.images.copy_for_fork(s, child) {
        Ok(place) => {
            add_row(&mut p.table, s, child, place);
            p.rows = *rows;
            trace.entry(Entry::Fork {
                slot: s,
                child,
                place,
            });
            Ok(go_on(p, tree, s, child))
        }
        Err(_) => {
            trace.entry(Entry::Panic(PanicKind::Swap));
            Err(PanicKind::Swap)
        }
    }
}

/// fork(II): makes a copy of the process in the lowest free slot. R0 is the child's pid for the parent, which passes the
/// word after the call, and the parent's pid for the child, which begins there. The caller shares the open files. Lions'
/// Commentary, `newproc` in `slp.c`.
///
/// # Errors
///
/// `EAGAIN`: all slots are used; the parent passes the word all the same. `Swap`: neither core nor the swap area has room for the
/// child. The system stops with a panic.
pub fn fork_one<T: Trace>(
    p: &mut Procs,
    tree: &mut Tree,
    s: Slot,
    _args: [u16; 4],
    trace: &mut T,
) -> Result<Answer, PanicKind>
    requires { Calls p.old tree.old.nodes s }
    ensures does { HasDone p.old p.new tree.new.nodes result (T.taken trace.old) (T.taken trace.new)
        (fork_one (handed p.old tree.old.nodes) s) }
    ensures frame { T.leads_to trace.old trace.new }
    ensures agree { AreProcs p.new }
    ensures marks { tree.new.marks ≡ tree.old.marks }
    ensures mounts { tree.new.mounts ≡ tree.old.mounts }
    ensures blocks { SameRest tree.old.nodes tree.new.nodes }
{
    see(p, s);
    let mut rows = p.rows;
    match rows.new_slot(s) {
        Some(child) => fork_into(p, tree, s, child, &rows, trace),
        None => {
            pass_word(p, s);
            Ok(Answer::Fail(Errno::EAGAIN))
        }
    }
}
