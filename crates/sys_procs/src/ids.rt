//! Who a process is: getpid(II), getuid(II), setuid(II), getgid(II), setgid(II); and csw(II), nice(II).
ghost use Rattle.std.specs.Prelude.{◌≡◌, ◌||◌, ◌==◌, pos, [], ◌∷◌};
ghost use Rattle.std.specs.Int.{int_min};
ghost use Rattle.v6_base.specs.Trace.{Took, Log};
ghost use Rattle.fs_nodes.specs.FileSystem.{FileSystem, SameRest};
ghost use Rattle.pick_rules.specs.Apply.{applied};
ghost use Rattle.sys_procs.specs.World.{change};
ghost use Rattle.sys_procs.specs.Handed.{Calls, AreProcs, IsAlive, handed, board};
ghost use Rattle.sys_procs.specs.Ids.{pid_of, as_user, as_group, set_uid, set_gid, get_uid, get_gid, switches, no_op, kept_nice, nice_to};
ghost use Rattle.sys_procs.specs.Done.{HasDone};

use crate::procs::Procs;
use fs_tree::Tree;
use proc_tab::Row;
use u_area::{ids, register};
use v6_base::{Answer, Entry, Errno, PanicKind, Slot, Trace};

/// The greatest number that nice(II) keeps.
const MAX_NICE: u16 = 20;

/// getpid(II): R0 is the number of the process.
#[tactic(auto, using(crate::proofs::Alive::calls), unfolding(crate::specs::Ids::pid_of))]
pub fn pid_of<T: Trace>(
    p: &mut Procs,
    tree: &mut Tree,
    s: Slot,
    _args: [u16; 4],
    trace: &mut T,
) -> Result<Answer, PanicKind>
    requires { Calls p.old tree.old.nodes s }
    ensures does { HasDone p.old p.new tree.new.nodes result (T.taken trace.old) (T.taken trace.new)
        (pid_of (handed p.old tree.old.nodes) s) }
    ensures frame { T.leads_to trace.old trace.new }
    ensures agree { AreProcs p.new }
    ensures marks { tree.new.marks ≡ tree.old.marks }
    ensures mounts { tree.new.mounts ≡ tree.old.mounts }
    ensures blocks { SameRest tree.old.nodes tree.new.nodes }
{
    let r0 = p.row(s).pid;
    let r1 = register(p.area_bytes(s), 1);
    Ok(Answer::Ret { r0, r1 })
}

/// Whether a process may take a user or a group: its real one, and the super-user any.
fn may_take(user: u8, real: u8, id: u8) -> bool
    ensures { result ≡ ((id == real) || (user == 0)) }
{
    id == real || user == 0
}

/// Makes a user the real and the effective one of a process.
fn set_user(p: &mut Procs, s: Slot, id: u8)
    requires { IsAlive p.old s }
    ensures state { (fs : FileSystem) → handed p.new fs ≡ change (handed p.old fs) s (as_user id) }
    ensures board { board p.new ≡ board p.old }
    ensures alive { IsAlive p.new s }
{
    let row = p.row(s);
    let [_, gid, _, rgid] = ids(p.area_bytes(s));
    p.put_row(s, Row { uid: id, ..row });
    p.put_ids(s, [id, gid, id, rgid]);
}

/// Makes a group the real and the effective one of a process.
fn set_group(p: &mut Procs, s: Slot, id: u8)
    requires { IsAlive p.old s }
    ensures state { (fs : FileSystem) → handed p.new fs ≡ change (handed p.old fs) s (as_group id) }
    ensures board { board p.new ≡ board p.old }
    ensures alive { IsAlive p.new s }
{
    let [uid, _, ruid, _] = ids(p.area_bytes(s));
    p.put_ids(s, [uid, id, ruid, id]);
}

/// setuid(II): the low byte of R0 becomes the real and the effective user, where it is the real one or the super-user
/// calls.
///
/// # Errors
///
/// `EPERM`: neither is so. Nothing has changed then.
#[tactic(auto, using(crate::proofs::Alive::calls), unfolding(crate::specs::Ids::set_uid))]
pub fn set_uid<T: Trace>(
    p: &mut Procs,
    tree: &mut Tree,
    s: Slot,
    _args: [u16; 4],
    trace: &mut T,
) -> Result<Answer, PanicKind>
    requires { Calls p.old tree.old.nodes s }
    ensures does { HasDone p.old p.new tree.new.nodes result (T.taken trace.old) (T.taken trace.new)
        (set_uid (handed p.old tree.old.nodes) s) }
    ensures frame { T.leads_to trace.old trace.new }
    ensures agree { AreProcs p.new }
    ensures marks { tree.new.marks ≡ tree.old.marks }
    ensures mounts { tree.new.mounts ≡ tree.old.mounts }
    ensures blocks { SameRest tree.old.nodes tree.new.nodes }
{
    let area = p.area_bytes(s);
    let r0 = register(area, 0);
    let r1 = register(area, 1);
    let [uid, _, ruid, _] = ids(area);
    let id = (r0 % 256) as u8;
    if !may_take(uid, ruid, id) {
        return Ok(Answer::Fail(Errno::EPERM));
    }
    set_user(p, s, id);
    Ok(Answer::Ret { r0, r1 })
}

/// getuid(II): the low byte of R0 is the real user, the high byte the effective one.
#[tactic(auto, using(crate::proofs::Alive::calls), unfolding(crate::specs::Ids::get_uid))]
pub fn get_uid<T: Trace>(
    p: &mut Procs,
    tree: &mut Tree,
    s: Slot,
    _args: [u16; 4],
    trace: &mut T,
) -> Result<Answer, PanicKind>
    requires { Calls p.old tree.old.nodes s }
    ensures does { HasDone p.old p.new tree.new.nodes result (T.taken trace.old) (T.taken trace.new)
        (get_uid (handed p.old tree.old.nodes) s) }
    ensures frame { T.leads_to trace.old trace.new }
    ensures agree { AreProcs p.new }
    ensures marks { tree.new.marks ≡ tree.old.marks }
    ensures mounts { tree.new.mounts ≡ tree.old.mounts }
    ensures blocks { SameRest tree.old.nodes tree.new.nodes }
{
    let area = p.area_bytes(s);
    let [uid, _, ruid, _] = ids(area);
    let r0 = u16::from(ruid) + 256 * u16::from(uid);
    let r1 = register(area, 1);
    Ok(Answer::Ret { r0, r1 })
}

/// setgid(II): the low byte of R0 becomes the real and the effective group, where it is the real one or the super-user
/// calls.
///
/// # Errors
///
/// `EPERM`: neither is so. Nothing has changed then.
#[tactic(auto, using(crate::proofs::Alive::calls), unfolding(crate::specs::Ids::set_gid))]
pub fn set_gid<T: Trace>(
    p: &mut Procs,
    tree: &mut Tree,
    s: Slot,
    _args: [u16; 4],
    trace: &mut T,
) -> Result<Answer, PanicKind>
    requires { Calls p.old tree.old.nodes s }
    ensures does { HasDone p.old p.new tree.new.nodes result (T.taken trace.old) (T.taken trace.new)
        (set_gid (handed p.old tree.old.nodes) s) }
    ensures frame { T.leads_to trace.old trace.new }
    ensures agree { AreProcs p.new }
    ensures marks { tree.new.marks ≡ tree.old.marks }
    ensures mounts { tree.new.mounts ≡ tree.old.mounts }
    ensures blocks { SameRest tree.old.nodes tree.new.nodes }
{
    let area = p.area_bytes(s);
    let r0 = register(area, 0);
    let r1 = register(area, 1);
    let [uid, _, _, rgid] = ids(area);
    let id = (r0 % 256) as u8;
    if !may_take(uid, rgid, id) {
        return Ok(Answer::Fail(Errno::EPERM));
    }
    set_group(p, s, id);
    Ok(Answer::Ret { r0, r1 })
}

/// getgid(II): the low byte of R0 is the real group, the high byte the effective one.
#[tactic(auto, using(crate::proofs::Alive::calls), unfolding(crate::specs::Ids::get_gid))]
pub fn get_gid<T: Trace>(
    p: &mut Procs,
    tree: &mut Tree,
    s: Slot,
    _args: [u16; 4],
    trace: &mut T,
) -> Result<Answer, PanicKind>
    requires { Calls p.old tree.old.nodes s }
    ensures does { HasDone p.old p.new tree.new.nodes result (T.taken trace.old) (T.taken trace.new)
        (get_gid (handed p.old tree.old.nodes) s) }
    ensures frame { T.leads_to trace.old trace.new }
    ensures agree { AreProcs p.new }
    ensures marks { tree.new.marks ≡ tree.old.marks }
    ensures mounts { tree.new.mounts ≡ tree.old.mounts }
    ensures blocks { SameRest tree.old.nodes tree.new.nodes }
{
    let area = p.area_bytes(s);
    let [_, gid, _, rgid] = ids(area);
    let r0 = u16::from(rgid) + 256 * u16::from(gid);
    let r1 = register(area, 1);
    Ok(Answer::Ret { r0, r1 })
}

/// csw(II): R0 is what the switches of the console say.
#[tactic(auto, using(crate::proofs::Alive::calls), unfolding(crate::specs::Ids::switches))]
pub fn switches<T: Trace>(
    p: &mut Procs,
    tree: &mut Tree,
    s: Slot,
    _args: [u16; 4],
    trace: &mut T,
) -> Result<Answer, PanicKind>
    requires { Calls p.old tree.old.nodes s }
    ensures does { HasDone p.old p.new tree.new.nodes result (T.taken trace.old) (T.taken trace.new)
        (switches (handed p.old tree.old.nodes) s) }
    ensures frame { T.leads_to trace.old trace.new }
    ensures agree { AreProcs p.new }
    ensures marks { tree.new.marks ≡ tree.old.marks }
    ensures mounts { tree.new.mounts ≡ tree.old.mounts }
    ensures blocks { SameRest tree.old.nodes tree.new.nodes }
{
    let r1 = register(p.area_bytes(s), 1);
    Ok(Answer::Ret { r0: p.switches, r1 })
}

/// The call smdate of earlier systems, which does nothing any more.
#[tactic(auto, using(crate::proofs::Alive::calls), unfolding(crate::specs::Ids::no_op))]
pub fn no_op<T: Trace>(
    p: &mut Procs,
    tree: &mut Tree,
    s: Slot,
    _args: [u16; 4],
    trace: &mut T,
) -> Result<Answer, PanicKind>
    requires { Calls p.old tree.old.nodes s }
    ensures does { HasDone p.old p.new tree.new.nodes result (T.taken trace.old) (T.taken trace.new)
        (no_op (handed p.old tree.old.nodes) s) }
    ensures frame { T.leads_to trace.old trace.new }
    ensures agree { AreProcs p.new }
    ensures marks { tree.new.marks ≡ tree.old.marks }
    ensures mounts { tree.new.mounts ≡ tree.old.mounts }
    ensures blocks { SameRest tree.old.nodes tree.new.nodes }
{
    let area = p.area_bytes(s);
    Ok(Answer::Ret {
        r0: register(area, 0),
        r1: register(area, 1),
    })
}

/// What is kept of a number that isn't negative: 20 at most.
fn held_nice(value: u16) -> i8
    ensures { result ≡ int_min (pos 20) (pos value) }
{
    value.min(MAX_NICE) as i8
}

/// What the super-user's number is kept as: its low eight bits, signed.
fn low_nice(value: u16) -> i8
    ensures { result ≡ kept_nice value }
{
    let low = (value % 256) as i16;
    if 2 * low < 256 {
        return low as i8;
    }
    (low - 256) as i8
}

/// Sets what a process adds to its priority.
#[tactic(auto, unfolding(pick_rules::specs::Apply::applied))]
fn set_nice<T: Trace>(p: &mut Procs, s: Slot, nice: i8, trace: &mut T)
    requires { IsAlive p.old s }
    ensures state { (fs : FileSystem) → handed p.new fs ≡ handed p.old fs }
    ensures board { board p.new ≡ applied (board p.old) (Entry.Nice s nice) }
    ensures items { Took (T.taken trace.old) (Log (Entry.Nice s nice) ∷ []) (T.taken trace.new) }
    ensures frame { T.leads_to trace.old trace.new }
    ensures alive { IsAlive p.new s }
{
    p.table.rows[s as usize].nice = nice;
    trace.entry(Entry::Nice { slot: s, nice });
}

/// nice(II): R0, a signed number, is added to the priority of the process: 20 at most, and below 0 for the super-user
/// alone.
///
/// # Errors
///
/// `EPERM`: it is below 0, and another user calls. 0 is set then.
#[tactic(auto, using(crate::proofs::Alive::calls), unfolding(crate::specs::Ids::nice_to))]
pub fn nice_to<T: Trace>(
    p: &mut Procs,
    tree: &mut Tree,
    s: Slot,
    _args: [u16; 4],
    trace: &mut T,
) -> Result<Answer, PanicKind>
    requires { Calls p.old tree.old.nodes s }
    ensures does { HasDone p.old p.new tree.new.nodes result (T.taken trace.old) (T.taken trace.new)
        (nice_to (handed p.old tree.old.nodes) s) }
    ensures frame { T.leads_to trace.old trace.new }
    ensures agree { AreProcs p.new }
    ensures marks { tree.new.marks ≡ tree.old.marks }
    ensures mounts { tree.new.mounts ≡ tree.old.mounts }
    ensures blocks { SameRest tree.old.nodes tree.new.nodes }
{
    let area = p.area_bytes(s);
    let r0 = register(area, 0);
    let r1 = register(area, 1);
    let uid = ids(area)[0];
    if r0 < 32768 {
        set_nice(p, s, held_nice(r0), trace);
        return Ok(Answer::Ret { r0, r1 });
    }
    if uid == 0 {
        set_nice(p, s, low_nice(r0), trace);
        return Ok(Answer::Ret { r0, r1 });
    }
    set_nice(p, s, 0, trace);
    Ok(Answer::Fail(Errno::EPERM))
}
