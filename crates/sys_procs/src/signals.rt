//! Signals are sent, and what they do is asked for: kill(II), signal(II).
ghost use Rattle.std.specs.Prelude.{◌≡◌, ◌<◌, ◌∷◌, [], true, false, nat_lt, if◌then◌else◌, length, map, slice_index};
ghost use Rattle.v6_base.specs.Trace.{Took};
ghost use Rattle.fs_nodes.specs.FileSystem.{FileSystem, SameRest};
ghost use Rattle.pick_rules.specs.Table.{IsTable};
ghost use Rattle.pick_rules.specs.Sleepers.{signalled};
ghost use Rattle.pick_rules.specs.Effects.{Show};
ghost use Rattle.pick_rules.specs.Logged.{logged};
ghost use Rattle.proc_tab.specs.Processes.{IsUsed};
ghost use Rattle.sys_procs.specs.Process.{Process};
ghost use Rattle.sys_procs.specs.World.{World, process_at, change};
ghost use Rattle.sys_procs.specs.Signals as rule;
ghost use Rattle.sys_procs.specs.Signals.{signal_lines, is_meant, meant_in, all_signalled, has_line, is_named, is_reached, forgetting, kill_to, signal_set};
ghost use Rattle.sys_procs.specs.inside.Sender.{IsSender, lines_where};
ghost use Rattle.sys_procs.specs.Handed.{AreProcs, Calls, IsAlive, handed, board};
ghost use Rattle.sys_procs.specs.Done.{HasDone};

use crate::procs::Procs;
use fs_tree::Tree;
use pick_rules::{Stat, Table};
use proc_tab::Row;
use sig_core::{NSIG, SIGKIL, post};
use u_area::{handler, ids, register};
use v6_base::{Answer, Entry, Errno, PanicKind, Slot, Trace};

/// A process goes at least at this priority from when it gets a signal: `PUSER` in Lions' Commentary, `param.h`.
const PUSER: i8 = 100;

/// A slot gets a signal: where it sleeps such that signals wake it, it can run. `psignal` in Lions' Commentary, `sig.c`.
#[tactic(auto, unfolding(pick_rules::specs::Sleepers::signalled))]
pub fn signal_slot(table: &mut Table, s: Slot)
    requires table { IsTable table.old }
    requires slot { s < 50 }
    ensures table { table.new ≡ signalled table.old s }
    ensures good { IsTable table.new }
{
    let row = &mut table.rows[s as usize];
    row.pri = row.pri.min(PUSER);
    let waits = matches!(row.stat, Stat::Waiting);
    if waits {
        table.setrun(s);
    }
}

/// Sends a signal to the process in a slot, also to one that has ended. What is no signal does nothing. Lions' Commentary,
/// `psignal` in `sig.c`.
#[tactic(auto, using(v6_base::proofs::Took::took_nothing))]
pub fn send_signal<T: Trace>(p: &mut Procs, s: Slot, sig: u16, trace: &mut T)
    requires agree { AreProcs p.old }
    requires used { IsUsed p.old.rows s }
    requires above { 0 < s }
    requires low { s < 50 }
    ensures state { (fs : FileSystem) → handed p.new fs ≡ change (handed p.old fs) s (rule.signalled sig) }
    ensures board { board p.new ≡ (logged {W = World} (board p.old) (map Show (signal_lines sig (s ∷ [])))).board }
    ensures items { Took (T.taken trace.old) (signal_lines sig (s ∷ [])) (T.taken trace.new) }
    ensures frame { T.leads_to trace.old trace.new }
    ensures images { p.new.images ≡ p.old.images }
    ensures agree { AreProcs p.new }
{
    let mut row = *p.rows.row(s);
    if !post(&mut row, sig) {
        return;
    }
    p.rows.set_row(s, row);
    signal_slot(&mut p.table, s);
    trace.entry(Entry::Signal {
        slot: s,
        sig: sig as u8,
    });
}

/// Sends a signal to the process in a slot, where it is meant.
#[tactic(auto, using(v6_base::proofs::Took::took_nothing))]
fn send_where<T: Trace>(p: &mut Procs, s: Slot, sig: u16, means: bool, trace: &mut T)
    requires agree { AreProcs p.old }
    requires used { means ≡ true → IsUsed p.old.rows s }
    requires above { 0 < s }
    requires low { s < 50 }
    ensures state { (fs : FileSystem) → handed p.new fs
        ≡ (if means then change (handed p.old fs) s (rule.signalled sig) else handed p.old fs) }
    ensures board { board p.new ≡ (logged {W = World} (board p.old) (map Show (lines_where means sig s))).board }
    ensures items { Took (T.taken trace.old) (lines_where means sig s) (T.taken trace.new) }
    ensures frame { T.leads_to trace.old trace.new }
    ensures images { p.new.images ≡ p.old.images }
    ensures agree { AreProcs p.new }
{
    if means {
        send_signal(p, s, sig, trace);
    }
}

/// Whether the terminal of the process in a slot is this line.
fn has_line(p: &Procs, line: u8, s: Slot) -> bool
    requires { s < 50 }
    ensures meant { (fs : FileSystem) → result ≡ is_meant (has_line line) s (process_at (handed p.now fs) s) }
    ensures used { result ≡ true → IsUsed p.now.rows s }
{
    if !p.rows.in_use(s) {
        return false;
    }
    u16::from(p.rows.row(s).tty) == u16::from(line) + 1
}

/// Sends a signal to all whose terminal is this line, lowest first. Lions' Commentary, `signal` in `sig.c`.
pub fn signal_line<T: Trace>(p: &mut Procs, line: u8, sig: u8, trace: &mut T)
    requires agree { AreProcs p.old }
    ensures state { (fs : FileSystem) → handed p.new fs
        ≡ record (handed p.old fs) { processes = all_signalled (has_line line) sig (handed p.old fs).processes } }
    ensures board { (fs : FileSystem) → board p.new ≡ (logged {W = World} (board p.old)
        (map Show (signal_lines sig (meant_in (has_line line) (handed p.old fs).processes)))).board }
    ensures items { (fs : FileSystem) → Took (T.taken trace.old)
        (signal_lines sig (meant_in (has_line line) (handed p.old fs).processes)) (T.taken trace.new) }
    ensures frame { T.leads_to trace.old trace.new }
    ensures images { p.new.images ≡ p.old.images }
    ensures agree { AreProcs p.new }
{
    let _kernel = p.rows.in_use(0);
    for s in 1..50 {
        let means = has_line(p, line, s);
        send_where(p, s, u16::from(sig), means, trace);
    }
}

/// Who sends a signal: its slot, what it names in R0, its terminal and its user.
#[derive(Clone, Copy)]
struct Sender {
    slot: Slot,
    pid: u16,
    tty: u8,
    uid: u8,
}

/// Whether a kill means the process of a row.
fn is_named(sender: Sender, s: Slot, row: &Row) -> bool
    ensures { (p other : Process) → IsSender sender p → other.row ≡ row.now → result ≡ is_named p s other }
{
    if sender.pid == 0 {
        s > 1 && row.tty == sender.tty
    } else {
        row.pid == sender.pid
    }
}

/// Whether a kill reaches the process of a row.
fn is_reached(sender: Sender, s: Slot, row: &Row) -> bool
    ensures { (p other : Process) → IsSender sender p → other.row ≡ row.now → result ≡ is_reached sender.slot p s other }
{
    s != sender.slot && is_named(sender, s, row) && (sender.uid == 0 || sender.uid == row.uid)
}

/// Whether a kill reaches the process in a slot.
fn reaches(p: &Procs, sender: Sender, s: Slot) -> bool
    requires { s < 50 }
    ensures meant { (fs : FileSystem) (who : Process) → IsSender sender who
        → result ≡ is_meant (is_reached sender.slot who) s (process_at (handed p.now fs) s) }
    ensures used { result ≡ true → IsUsed p.now.rows s }
{
    if !p.rows.in_use(s) {
        return false;
    }
    is_reached(sender, s, p.rows.row(s))
}

/// Sends a signal to all that a kill reaches, lowest first, and says whether there are some.
fn send_to_all<T: Trace>(p: &mut Procs, sender: Sender, sig: u16, trace: &mut T) -> bool
    requires agree { AreProcs p.old }
    ensures found { (fs : FileSystem) (who : Process) → IsSender sender who
        → result ≡ (nat_lt 0 (length (meant_in (is_reached sender.slot who) (handed p.old fs).processes))) }
    ensures none { (fs : FileSystem) (who : Process) → IsSender sender who → result ≡ false
        → handed p.new fs ≡ handed p.old fs }
    ensures state { (fs : FileSystem) (who : Process) → IsSender sender who → handed p.new fs
        ≡ record (handed p.old fs) { processes = all_signalled (is_reached sender.slot who) sig (handed p.old fs).processes } }
    ensures board { (fs : FileSystem) (who : Process) → IsSender sender who → board p.new ≡ (logged {W = World} (board p.old)
        (map Show (signal_lines sig (meant_in (is_reached sender.slot who) (handed p.old fs).processes)))).board }
    ensures items { (fs : FileSystem) (who : Process) → IsSender sender who → Took (T.taken trace.old)
        (signal_lines sig (meant_in (is_reached sender.slot who) (handed p.old fs).processes)) (T.taken trace.new) }
    ensures frame { T.leads_to trace.old trace.new }
    ensures agree { AreProcs p.new }
{
    let _kernel = p.rows.in_use(0);
    let mut found = false;
    for s in 1..50 {
        let means = reaches(p, sender, s);
        send_where(p, s, sig, means, trace);
        found |= means;
    }
    found
}

/// kill(II): sends a signal, `args[0]`, to the process of the pid in R0, or for 0 to all with the terminal of who calls, above
/// slot 1; never to who calls. Processes that have ended count too. What is no signal does nothing. Lions' Commentary, `kill`
/// in `sys4.c`.
///
/// # Errors
///
/// `ESRCH`: it reaches none; another user's processes are for the super-user alone.
#[tactic(auto, using(crate::proofs::Alive::calls), unfolding(crate::specs::Signals::kill_to))]
pub fn kill_to<T: Trace>(
    p: &mut Procs,
    tree: &mut Tree,
    s: Slot,
    args: [u16; 4],
    trace: &mut T,
) -> Result<Answer, PanicKind>
    requires { Calls p.old tree.old.nodes s }
    ensures does { HasDone p.old p.new tree.new.nodes result (T.taken trace.old) (T.taken trace.new)
        (kill_to (handed p.old tree.old.nodes) s (slice_index args 0)) }
    ensures frame { T.leads_to trace.old trace.new }
    ensures agree { AreProcs p.new }
    ensures marks { tree.new.marks ≡ tree.old.marks }
    ensures mounts { tree.new.mounts ≡ tree.old.mounts }
    ensures blocks { SameRest tree.old.nodes tree.new.nodes }
{
    let area = p.area_bytes(s);
    let r0 = register(area, 0);
    let r1 = register(area, 1);
    let uid = ids(area)[0];
    let sender = Sender {
        slot: s,
        pid: r0,
        tty: p.row(s).tty,
        uid,
    };
    if send_to_all(p, sender, args[0], trace) {
        Ok(Answer::Ret { r0, r1 })
    } else {
        Ok(Answer::Fail(Errno::ESRCH))
    }
}

/// Forgets a signal of this number that waits for a process.
fn forget(p: &mut Procs, s: Slot, sig: u16)
    requires { IsAlive p.old s }
    ensures state { (fs : FileSystem) → handed p.new fs ≡ change (handed p.old fs) s (forgetting sig) }
    ensures board { board p.new ≡ board p.old }
    ensures alive { IsAlive p.new s }
{
    let mut row = p.row(s);
    if u16::from(row.sig) == sig {
        row.sig = 0;
        p.put_row(s, row);
    }
}

/// signal(II): says what a signal, `args[0]`, shall do from now on, `args[1]`: 0 the default, an odd number nothing, and else
/// the routine at this address. R0 is what it did before. A signal of this number that waits is forgotten. Lions' Commentary,
/// `ssig` in `sys4.c`.
///
/// # Errors
///
/// `EINVAL`: the number isn't 1 to 19, or is 9. Nothing has changed then.
#[tactic(auto, using(crate::proofs::Alive::calls), unfolding(crate::specs::Signals::signal_set))]
pub fn signal_set<T: Trace>(
    p: &mut Procs,
    tree: &mut Tree,
    s: Slot,
    args: [u16; 4],
    trace: &mut T,
) -> Result<Answer, PanicKind>
    requires { Calls p.old tree.old.nodes s }
    ensures does { HasDone p.old p.new tree.new.nodes result (T.taken trace.old) (T.taken trace.new)
        (signal_set (handed p.old tree.old.nodes) s (slice_index args 0) (slice_index args 1)) }
    ensures frame { T.leads_to trace.old trace.new }
    ensures agree { AreProcs p.new }
    ensures marks { tree.new.marks ≡ tree.old.marks }
    ensures mounts { tree.new.mounts ≡ tree.old.mounts }
    ensures blocks { SameRest tree.old.nodes tree.new.nodes }
{
    let sig = args[0];
    if sig == 0 || sig >= u16::from(NSIG) || sig == u16::from(SIGKIL) {
        return Ok(Answer::Fail(Errno::EINVAL));
    }
    let area = p.area_bytes(s);
    let number = usize::from(sig);
    let r0 = handler(area, number);
    let r1 = register(area, 1);
    p.put_handler(s, number, args[1]);
    forget(p, s, sig);
    Ok(Answer::Ret { r0, r1 })
}
