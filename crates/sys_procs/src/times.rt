//! The time, and the times of processes: time(II), stime(II), times(II), sleep(II).
ghost use Rattle.std.specs.Prelude.{◌≡◌, ◌+◌, ◌*◌, ◌%◌, ◌^◌, [], ◌∷◌, slice_index, is_some};
ghost use Rattle.v6_base.specs.Trace.{Took, Log};
ghost use Rattle.v6_base.specs.Copy.{store_bytes};
ghost use Rattle.fs_nodes.specs.FileSystem.{FileSystem, SameRest};
ghost use Rattle.pick_rules.specs.Apply.{applied};
ghost use Rattle.sys_procs.specs.World.{change};
ghost use Rattle.sys_procs.specs.Handed.{Calls, AreProcs, IsAlive, handed, board};
ghost use Rattle.sys_procs.specs.inside.Handed.{memory_here};
ghost use Rattle.sys_procs.specs.Times.{time_now, set_time, sleep_until, sleep_for, sleeping_until, tout_with, with_time, stored, times_to};
ghost use Rattle.sys_procs.specs.Done.{HasDone};

use crate::procs::Procs;
use fs_tree::Tree;
use u_area::{SLEEP_CALL, ids, register, time_bytes};
use v6_base::{Answer, Chan, Entry, Errno, PanicKind, Slot, Space, Trace};

/// What a process sleeps at until a time: `PSLEP` of `param.h` in Lions' Commentary.
const PSLEP: i8 = 90;

/// time(II): R0 and R1 are the high and the low word of the time, in seconds since the beginning of 1970 in Greenwich.
#[tactic(auto, using(crate::proofs::Alive::calls), unfolding(crate::specs::Times::time_now))]
pub fn time_now<T: Trace>(
    p: &mut Procs,
    tree: &mut Tree,
    s: Slot,
    _args: [u16; 4],
    trace: &mut T,
) -> Result<Answer, PanicKind>
    requires { Calls p.old tree.old.nodes s }
    ensures does { HasDone p.old p.new tree.new.nodes result (T.taken trace.old) (T.taken trace.new)
        (time_now (handed p.old tree.old.nodes) s) }
    ensures frame { T.leads_to trace.old trace.new }
    ensures agree { AreProcs p.new }
    ensures marks { tree.new.marks ≡ tree.old.marks }
    ensures mounts { tree.new.mounts ≡ tree.old.mounts }
    ensures blocks { SameRest tree.old.nodes tree.new.nodes }
{
    Ok(Answer::Ret {
        r0: (p.table.now / 65536) as u16,
        r1: (p.table.now % 65536) as u16,
    })
}

/// Sets the time, and wakes those who sleep until a time: they look at the new one.
#[tactic(auto, using(v6_base::proofs::Took::takes))]
fn put_time<T: Trace>(p: &mut Procs, s: Slot, time: u32, trace: &mut T)
    requires { IsAlive p.old s }
    ensures state { (fs : FileSystem) → handed p.new fs ≡ with_time (handed p.old fs) time }
    ensures board { board p.new ≡ applied (applied (board p.old) (Entry.Time time)) (Entry.Wake Chan.Tout) }
    ensures items { Took (T.taken trace.old) (Log (Entry.Time time) ∷ Log (Entry.Wake Chan.Tout) ∷ [])
        (T.taken trace.new) }
    ensures frame { T.leads_to trace.old trace.new }
    ensures alive { IsAlive p.new s }
{
    p.table.now = time;
    trace.entry(Entry::Time(time));
    p.table.wake(Chan::Tout, trace);
}

/// The time in its high and its low word.
fn time_in(high: u16, low: u16) -> u32
    ensures { result ≡ (65536 * high + low) % 2 ^ 32 }
{
    65536 * u32::from(high) + u32::from(low)
}

/// stime(II): R0 and R1 are the high and the low word of the new time, for the super-user. Those who sleep until a time
/// look at the new one.
///
/// # Errors
///
/// `EPERM`: another user calls. Nothing has changed then.
#[tactic(auto, using(crate::proofs::Alive::calls), unfolding(crate::specs::Times::set_time))]
pub fn set_time<T: Trace>(
    p: &mut Procs,
    tree: &mut Tree,
    s: Slot,
    _args: [u16; 4],
    trace: &mut T,
) -> Result<Answer, PanicKind>
    requires { Calls p.old tree.old.nodes s }
    ensures does { HasDone p.old p.new tree.new.nodes result (T.taken trace.old) (T.taken trace.new)
        (set_time (handed p.old tree.old.nodes) s) }
    ensures frame { T.leads_to trace.old trace.new }
    ensures agree { AreProcs p.new }
    ensures marks { tree.new.marks ≡ tree.old.marks }
    ensures mounts { tree.new.mounts ≡ tree.old.mounts }
    ensures blocks { SameRest tree.old.nodes tree.new.nodes }
{
    let area = p.area_bytes(s);
    let uid = ids(area)[0];
    if uid != 0 {
        return Ok(Answer::Fail(Errno::EPERM));
    }
    let r0 = register(area, 0);
    let r1 = register(area, 1);
    put_time(p, s, time_in(r0, r1), trace);
    Ok(Answer::Ret { r0, r1 })
}

/// The first time at which a sleeper is due, with one more sleeper.
fn tout_with(p: &Procs, until: u32) -> u32
    ensures { (fs : FileSystem) → result ≡ tout_with (handed p.now fs).clock until }
{
    if p.table.tout <= p.table.now || until < p.table.tout {
        return until;
    }
    p.table.tout
}

/// Keeps for how long a process sleeps.
fn keep_sleep(p: &mut Procs, s: Slot, until: u32)
    requires { IsAlive p.old s }
    ensures state { (fs : FileSystem) → handed p.new fs ≡ change (handed p.old fs) s (sleeping_until until) }
    ensures board { board p.new ≡ board p.old }
    ensures alive { IsAlive p.new s }
{
    let high = (until / 65536) as u16;
    let low = (until % 65536) as u16;
    p.put_call(s, SLEEP_CALL, &[0, 0, 0, 0, high, low, 0, 0]);
}

/// Sleeps until a time, unless a signal is due, from the call and from each time that it goes on. sleep(II); Lions' Commentary,
/// `sslep` in `sys2.c`.
#[tactic(auto, unfolding(crate::specs::Times::sleep_until))]
pub(crate) fn sleep_until(p: &mut Procs, s: Slot, until: u32) -> Answer
    requires { IsAlive p.old s }
    ensures answer { (fs : FileSystem) → result ≡ (sleep_until (handed p.old fs) s until).answer }
    ensures state { (fs : FileSystem) → handed p.new fs ≡ (sleep_until (handed p.old fs) s until).state }
    ensures board { board p.new ≡ board p.old }
    ensures alive { IsAlive p.new s }
{
    if until <= p.table.now {
        let area = p.area_bytes(s);
        return Answer::Ret {
            r0: register(area, 0),
            r1: register(area, 1),
        };
    }
    p.table.tout = tout_with(p, until);
    if p.is_due(s) {
        return Answer::Fail(Errno::EINTR);
    }
    keep_sleep(p, s, until);
    Answer::Sleep {
        pri: PSLEP,
        chan: Chan::Tout,
    }
}

/// sleep(II): R0 is for how many seconds.
///
/// # Errors
///
/// `EINTR`: the process would sleep, and a signal is due.
#[tactic(auto, using(crate::proofs::Alive::calls), unfolding(crate::specs::Times::sleep_for))]
pub fn sleep_for<T: Trace>(
    p: &mut Procs,
    tree: &mut Tree,
    s: Slot,
    _args: [u16; 4],
    trace: &mut T,
) -> Result<Answer, PanicKind>
    requires { Calls p.old tree.old.nodes s }
    ensures does { HasDone p.old p.new tree.new.nodes result (T.taken trace.old) (T.taken trace.new)
        (sleep_for (handed p.old tree.old.nodes) s) }
    ensures frame { T.leads_to trace.old trace.new }
    ensures agree { AreProcs p.new }
    ensures marks { tree.new.marks ≡ tree.old.marks }
    ensures mounts { tree.new.mounts ≡ tree.old.mounts }
    ensures blocks { SameRest tree.old.nodes tree.new.nodes }
{
    let r0 = register(p.area_bytes(s), 0);
    let until = p.table.now.wrapping_add(u32::from(r0));
    Ok(sleep_until(p, s, until))
}

/// Puts bytes into the memory of a process, from an address on: all of them, or none where one can't be written.
fn put_bytes(p: &mut Procs, s: Slot, at: u16, bytes: &[u8; 12]) -> bool
    requires { IsAlive p.old s }
    ensures done { result ≡ is_some (store_bytes (memory_here p.old s) at bytes.now) }
    ensures state { (fs : FileSystem) → handed p.new fs
        ≡ (stored (handed p.old fs) s (store_bytes (memory_here p.old s) at bytes.now)).state }
    ensures board { board p.new ≡ board p.old }
    ensures alive { IsAlive p.new s }
{
    p.images.see_kept();
    let mut space = p.images.space(s);
    space.copy_out(at, bytes)
}

/// times(II): the ticks of the process and of its children, in user mode and in the kernel, go to an address, `args[0]`,
/// as six words, or none of them.
///
/// # Errors
///
/// `EFAULT`: the address is odd, or one of the words cannot be written there. Nothing has changed then.
#[tactic(auto, using(crate::proofs::Alive::calls), unfolding(crate::specs::Times::times_to))]
pub fn times_to<T: Trace>(
    p: &mut Procs,
    tree: &mut Tree,
    s: Slot,
    args: [u16; 4],
    trace: &mut T,
) -> Result<Answer, PanicKind>
    requires { Calls p.old tree.old.nodes s }
    ensures does { HasDone p.old p.new tree.new.nodes result (T.taken trace.old) (T.taken trace.new)
        (times_to (handed p.old tree.old.nodes) s (slice_index args 0)) }
    ensures frame { T.leads_to trace.old trace.new }
    ensures agree { AreProcs p.new }
    ensures marks { tree.new.marks ≡ tree.old.marks }
    ensures mounts { tree.new.mounts ≡ tree.old.mounts }
    ensures blocks { SameRest tree.old.nodes tree.new.nodes }
{
    let at = args[0];
    if at % 2 == 1 {
        return Ok(Answer::Fail(Errno::EFAULT));
    }
    let area = p.area_bytes(s);
    let r0 = register(area, 0);
    let r1 = register(area, 1);
    let times = time_bytes(area);
    if !put_bytes(p, s, at, &times) {
        return Ok(Answer::Fail(Errno::EFAULT));
    }
    Ok(Answer::Ret { r0, r1 })
}
