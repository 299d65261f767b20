//! Calls that go on when their process wakes: sleep(II), wait(II).
ghost use Rattle.std.specs.Prelude.{◌≡◌};
ghost use Rattle.fs_nodes.specs.FileSystem.{FileSystem, SameRest};
ghost use Rattle.sys_procs.specs.World.{change};
ghost use Rattle.sys_procs.specs.Handed.{Calls, AreProcs, IsAlive, handed, board};
ghost use Rattle.sys_procs.specs.Resume.{awake, resume_proc};
ghost use Rattle.sys_procs.specs.Done.{HasDone};

use crate::procs::Procs;
use crate::times::sleep_until;
use crate::wait::wait_child;
use fs_tree::Tree;
use u_area::{NOTHING_PENDING, SLEEP_CALL, call_words, pending_call};
use v6_base::{Answer, Errno, PanicKind, Slot, Trace};

/// Says that no call of a process is pending.
fn wake_up(p: &mut Procs, s: Slot)
    requires { IsAlive p.old s }
    ensures state { (fs : FileSystem) → handed p.new fs ≡ change (handed p.old fs) s awake }
    ensures board { board p.new ≡ board p.old }
    ensures calls { (fs : FileSystem) → Calls p.old fs s → Calls p.new fs s }
{
    p.put_call(s, NOTHING_PENDING, &[0; 8]);
}

/// Goes on with the call of a process that has woken: sleep(II) or wait(II), from its beginning.
///
/// # Errors
///
/// `EINTR`: a signal is due. Else those of the call.
#[tactic(auto, using(crate::proofs::Alive::calls), unfolding(crate::specs::Resume::resume_proc))]
pub fn resume_proc<T: Trace>(
    p: &mut Procs,
    tree: &mut Tree,
    s: Slot,
    trace: &mut T,
) -> Result<Answer, PanicKind>
    requires { Calls p.old tree.old.nodes s }
    ensures does { HasDone p.old p.new tree.new.nodes result (T.taken trace.old) (T.taken trace.new)
        (resume_proc (handed p.old tree.old.nodes) s) }
    ensures frame { T.leads_to trace.old trace.new }
    ensures agree { AreProcs p.new }
    ensures marks { tree.new.marks ≡ tree.old.marks }
    ensures mounts { tree.new.mounts ≡ tree.old.mounts }
    ensures blocks { SameRest tree.old.nodes tree.new.nodes }
{
    let area = p.area_bytes(s);
    let pending = pending_call(area);
    let call = call_words(area);
    wake_up(p, s);
    if p.is_due(s) {
        return Ok(Answer::Fail(Errno::EINTR));
    }
    if pending == SLEEP_CALL {
        let until = 65536 * u32::from(call[4]) + u32::from(call[5]);
        return Ok(sleep_until(p, s, until));
    }
    wait_child(p, tree, s, [0; 4], trace)
}
