//! The system calls that are built, in the order of their numbers: section II of the manual; `sysent` in Lions'
//! Commentary, `sysent.c`.
ghost use Rattle.std.specs.Prelude.{◌≡◌, ◌≢◌, ◌<◌, ◌≤◌, ◌⊎◌, IfOk, IfErr};
ghost use Rattle.fs_nodes.specs.FileSystem.{SameRest};
ghost use Rattle.fs_tree.specs.Mounting.{AreMounts};
ghost use Rattle.sys_files.specs.Handed as parts;
ghost use Rattle.sys_files.specs.Sound.{IsSound};
ghost use Rattle.sys_files.specs.Does.{Does};
ghost use Rattle.sys_files.specs.Frame.{LeavesOther};
ghost use Rattle.sys_procs.specs.Done.{HasDone};
ghost use Rattle.sys_procs.specs.Frame as its;
ghost use Rattle.sys_procs.specs.Handed.{handed, AreProcs, AreBare, Calls, IsMarked};
ghost use Rattle.abstract_unix.specs.Calls.{sysent_of, file_row, process_row, process_named};
ghost use Rattle.abstract_unix.specs.OtherDisk.{StandsOnRoot, RunsOnRoot};

use fs_tree::Tree;
use proc_tab::Row;
use sys_files::{
    Files, chdir_to, chmod_to, chown_to, close_file, creat_file, dup_file, gtty_get, link_file,
    mknod_at, mount_on, open_file, pipe_new, read_file, seek_to, stat_file, stat_open, stty_set,
    sync_all, umount_off, unlink_file, write_file,
};
use sys_procs::{
    Procs, break_at, exec_file, get_gid, get_uid, kill_to, nice_to, no_op, pid_of, set_gid,
    set_time, set_uid, signal_set, sleep_for, switches, time_now, times_to, wait_child,
};
use u_area::UArea;
use v6_base::{Answer, PanicKind, Slot, Space, Trace};

/// A call on files.
#[derive(Clone, Copy, Debug, PartialEq, Eq)]
pub enum FileCall {
    Read,
    Write,
    Open,
    Close,
    Creat,
    Link,
    Unlink,
    Chdir,
    Mknod,
    Chmod,
    Chown,
    Stat,
    Seek,
    Mount,
    Umount,
    Fstat,
    Stty,
    Gtty,
    Sync,
    Dup,
    Pipe,
}

/// A call on processes.
#[derive(Clone, Copy, Debug, PartialEq, Eq)]
pub enum ProcessCall {
    Wait,
    Exec,
    Time,
    Break,
    Getpid,
    Setuid,
    Getuid,
    Stime,
    Smdate,
    Nice,
    Sleep,
    Kill,
    Csw,
    Times,
    Setgid,
    Getgid,
    Signal,
}

/// A system call.
#[derive(Clone, Copy, Debug, PartialEq, Eq)]
pub enum SystemCall {
    /// The word after it is the address of another call's word: indir(II).
    Indirect,
    Exit,
    Fork,
    /// There is no call of this number.
    Unknown,
    OnFiles(FileCall),
    OnProcesses(ProcessCall),
}

/// An entry of the table of system calls: how many words of arguments follow the call's own, and which call it is.
#[derive(Clone, Copy, Debug, PartialEq, Eq)]
pub struct Sysent {
    pub count: u8,
    pub call: SystemCall,
}

/// The entry of a number. What has no line in the table is no call, and takes no arguments.
#[inline]
pub fn sysent_of(number: u8) -> Sysent
    ensures { result ≡ sysent_of number }
{
    if number < 24 {
        first_sysent_of(number)
    } else {
        later_sysent_of(number)
    }
}

/// The entry of a number of the first half of the table.
#[inline]
#[tactic(auto, unfolding(crate::specs::Calls::sysent_of))]
fn first_sysent_of(number: u8) -> Sysent
    requires { number < 24 }
    ensures { result ≡ sysent_of number }
{
    match number {
        0 => entry(0, SystemCall::Indirect),
        1 => entry(0, SystemCall::Exit),
        2 => entry(0, SystemCall::Fork),
        3 => on_files(2, FileCall::Read),
        4 => on_files(2, FileCall::Write),
        5 => on_files(2, FileCall::Open),
        6 => on_files(0, FileCall::Close),
        7 => on_processes(0, ProcessCall::Wait),
        8 => on_files(2, FileCall::Creat),
        9 => on_files(2, FileCall::Link),
        10 => on_files(1, FileCall::Unlink),
        11 => on_processes(2, ProcessCall::Exec),
        12 => on_files(1, FileCall::Chdir),
        13 => on_processes(0, ProcessCall::Time),
        14 => on_files(3, FileCall::Mknod),
        15 => on_files(2, FileCall::Chmod),
        16 => on_files(2, FileCall::Chown),
        17 => on_processes(1, ProcessCall::Break),
        18 => on_files(2, FileCall::Stat),
        19 => on_files(2, FileCall::Seek),
        20 => on_processes(0, ProcessCall::Getpid),
        21 => on_files(3, FileCall::Mount),
        22 => on_files(1, FileCall::Umount),
        23 => on_processes(0, ProcessCall::Setuid),
        _ => entry(0, SystemCall::Unknown),
    }
}

/// The entry of a number of the second half.
#[inline]
#[tactic(auto, unfolding(crate::specs::Calls::sysent_of))]
fn later_sysent_of(number: u8) -> Sysent
    requires { 24 ≤ number }
    ensures { result ≡ sysent_of number }
{
    match number {
        24 => on_processes(0, ProcessCall::Getuid),
        25 => on_processes(0, ProcessCall::Stime),
        26 => entry(3, SystemCall::Unknown),
        28 => on_files(1, FileCall::Fstat),
        30 => on_processes(1, ProcessCall::Smdate),
        31 => on_files(1, FileCall::Stty),
        32 => on_files(1, FileCall::Gtty),
        34 => on_processes(0, ProcessCall::Nice),
        35 => on_processes(0, ProcessCall::Sleep),
        36 => on_files(0, FileCall::Sync),
        37 => on_processes(1, ProcessCall::Kill),
        38 => on_processes(0, ProcessCall::Csw),
        41 => on_files(0, FileCall::Dup),
        42 => on_files(0, FileCall::Pipe),
        43 => on_processes(1, ProcessCall::Times),
        44 => entry(4, SystemCall::Unknown),
        46 => on_processes(0, ProcessCall::Setgid),
        47 => on_processes(0, ProcessCall::Getgid),
        48 => on_processes(2, ProcessCall::Signal),
        _ => entry(0, SystemCall::Unknown),
    }
}

#[inline]
fn entry(count: u8, call: SystemCall) -> Sysent
    ensures { result ≡ record { count = count; call = call } }
{
    Sysent { count, call }
}

#[inline]
fn on_files(count: u8, call: FileCall) -> Sysent
    ensures { result ≡ record { count = count; call = SystemCall.OnFiles call } }
{
    entry(count, SystemCall::OnFiles(call))
}

#[inline]
fn on_processes(count: u8, call: ProcessCall) -> Sysent
    ensures { result ≡ record { count = count; call = SystemCall.OnProcesses call } }
{
    entry(count, SystemCall::OnProcesses(call))
}

/// Does a call on files by its row.
#[inline(always)]
fn do_file_row<S: Space, T: Trace>(
    call: FileCall,
    files: &mut Files,
    slot: Slot,
    u: &mut UArea,
    row: &mut Row,
    space: &mut S,
    args: [u16; 4],
    now: u32,
    trace: &mut T,
) -> Answer
    requires sound { IsSound (parts.handed files.old u.old row.old (S.image space.old)) }
    ensures does { Does (parts.handed files.old u.old row.old (S.image space.old))
        (parts.handed files.new u.new row.new (S.image space.new)) result (T.taken trace.old) (T.taken trace.new)
        (file_row call (parts.handed files.old u.old row.old (S.image space.old)) slot args now) }
    ensures frame { T.leads_to trace.old trace.new }
    ensures memory { S.rest space.new ≡ S.rest space.old }
    ensures blocks { SameRest files.old.tree.nodes files.new.tree.nodes }
{
    match call {
        FileCall::Read => read_file(files, slot, u, row, space, args, now, trace),
        FileCall::Write => write_file(files, slot, u, row, space, args, now, trace),
        FileCall::Open => open_file(files, slot, u, row, space, args, now, trace),
        FileCall::Close => close_file(files, slot, u, row, space, args, now, trace),
        FileCall::Creat => creat_file(files, slot, u, row, space, args, now, trace),
        FileCall::Link => link_file(files, slot, u, row, space, args, now, trace),
        FileCall::Unlink => unlink_file(files, slot, u, row, space, args, now, trace),
        FileCall::Chdir => chdir_to(files, slot, u, row, space, args, now, trace),
        FileCall::Mknod => mknod_at(files, slot, u, row, space, args, now, trace),
        FileCall::Chmod => chmod_to(files, slot, u, row, space, args, now, trace),
        FileCall::Chown => chown_to(files, slot, u, row, space, args, now, trace),
        FileCall::Stat => stat_file(files, slot, u, row, space, args, now, trace),
        FileCall::Seek => seek_to(files, slot, u, row, space, args, now, trace),
        FileCall::Mount => mount_on(files, slot, u, row, space, args, now, trace),
        FileCall::Umount => umount_off(files, slot, u, row, space, args, now, trace),
        FileCall::Fstat => stat_open(files, slot, u, row, space, args, now, trace),
        FileCall::Stty => stty_set(files, slot, u, row, space, args, now, trace),
        FileCall::Gtty => gtty_get(files, slot, u, row, space, args, now, trace),
        FileCall::Sync => sync_all(files, slot, u, row, space, args, now, trace),
        FileCall::Dup => dup_file(files, slot, u, row, space, args, now, trace),
        FileCall::Pipe => pipe_new(files, slot, u, row, space, args, now, trace),
    }
}

/// Does a call on files. Where all that it has to do with is on one disk, it leaves the other one alone; and while nothing is
/// covered, a process that stands on the root's disk has to do with that one.
#[inline(always)]
pub fn do_file_call<S: Space, T: Trace>(
    call: FileCall,
    files: &mut Files,
    slot: Slot,
    u: &mut UArea,
    row: &mut Row,
    space: &mut S,
    args: [u16; 4],
    now: u32,
    trace: &mut T,
) -> Answer
    requires sound { IsSound (parts.handed files.old u.old row.old (S.image space.old)) }
    ensures does { Does (parts.handed files.old u.old row.old (S.image space.old))
        (parts.handed files.new u.new row.new (S.image space.new)) result (T.taken trace.old) (T.taken trace.new)
        (file_row call (parts.handed files.old u.old row.old (S.image space.old)) slot args now) }
    ensures apart { call ≢ FileCall.Sync → call ≢ FileCall.Pipe →
        let h = parts.handed files.old u.old row.old (S.image space.old) in
        LeavesOther h (record (file_row call h slot args now) {
          state = parts.handed files.new u.new row.new (S.image space.new);
        }) }
    ensures unmounted { StandsOnRoot (parts.handed files.old u.old row.old (S.image space.old))
        → files.new.tree.nodes.store.second ≡ files.old.tree.nodes.store.second }
    ensures frame { T.leads_to trace.old trace.new }
    ensures memory { S.rest space.new ≡ S.rest space.old }
    ensures blocks { SameRest files.old.tree.nodes files.new.tree.nodes }
{
    do_file_row(call, files, slot, u, row, space, args, now, trace)
}

/// Does a call on processes other than exec(II): the marks of the texts stay.
#[inline(always)]
fn do_other_call<T: Trace>(
    call: ProcessCall,
    p: &mut Procs,
    tree: &mut Tree,
    s: Slot,
    args: [u16; 4],
    trace: &mut T,
) -> Result<Answer, PanicKind>
    requires other { call ≢ ProcessCall.Exec }
    requires calls { Calls p.old tree.old.nodes s }
    ensures does { HasDone p.old p.new tree.new.nodes result (T.taken trace.old) (T.taken trace.new)
        (process_row call tree.old.mounts (handed p.old tree.old.nodes) s args) }
    ensures frame { T.leads_to trace.old trace.new }
    ensures agree { AreProcs p.new }
    ensures marks { tree.new.marks ≡ tree.old.marks }
    ensures mounts { tree.new.mounts ≡ tree.old.mounts }
    ensures blocks { SameRest tree.old.nodes tree.new.nodes }
{
    match call {
        ProcessCall::Wait => wait_child(p, tree, s, args, trace),
        ProcessCall::Exec => unreachable!(),
        ProcessCall::Time => time_now(p, tree, s, args, trace),
        ProcessCall::Break => break_at(p, tree, s, args, trace),
        ProcessCall::Getpid => pid_of(p, tree, s, args, trace),
        ProcessCall::Setuid => set_uid(p, tree, s, args, trace),
        ProcessCall::Getuid => get_uid(p, tree, s, args, trace),
        ProcessCall::Stime => set_time(p, tree, s, args, trace),
        ProcessCall::Smdate => no_op(p, tree, s, args, trace),
        ProcessCall::Nice => nice_to(p, tree, s, args, trace),
        ProcessCall::Sleep => sleep_for(p, tree, s, args, trace),
        ProcessCall::Kill => kill_to(p, tree, s, args, trace),
        ProcessCall::Csw => switches(p, tree, s, args, trace),
        ProcessCall::Times => times_to(p, tree, s, args, trace),
        ProcessCall::Setgid => set_gid(p, tree, s, args, trace),
        ProcessCall::Getgid => get_gid(p, tree, s, args, trace),
        ProcessCall::Signal => signal_set(p, tree, s, args, trace),
    }
}

/// Does a call on processes by its row. Where it stops in exec(II), its process may have neither its old image nor its new one.
#[tactic(auto, using(crate::proofs::CallLemmas::stops_whole, crate::proofs::CallLemmas::stops_so))]
fn do_process_row<T: Trace>(
    call: ProcessCall,
    p: &mut Procs,
    tree: &mut Tree,
    s: Slot,
    args: [u16; 4],
    trace: &mut T,
) -> Result<Answer, PanicKind>
    requires calls { Calls p.old tree.old.nodes s }
    requires marks { IsMarked p.old tree.old.marks }
    requires mounts { AreMounts tree.old.mounts tree.old.nodes.store }
    ensures does { HasDone p.old p.new tree.new.nodes result (T.taken trace.old) (T.taken trace.new)
        (process_row call tree.old.mounts (handed p.old tree.old.nodes) s args) }
    ensures frame { T.leads_to trace.old trace.new }
    ensures agree { IfOk result (λ answer. AreProcs p.new) }
    ensures left { IfErr result (λ kind. AreProcs p.new ⊎ AreBare p.new s) }
    ensures marks { IsMarked p.new tree.new.marks }
    ensures mounts { tree.new.mounts ≡ tree.old.mounts }
    ensures blocks { SameRest tree.old.nodes tree.new.nodes }
{
    match call {
        ProcessCall::Exec => exec_file(p, tree, s, args, trace),
        _ => do_other_call(call, p, tree, s, args, trace),
    }
}

/// Does a call on processes. Where it stops in exec(II), its process may have neither its old image nor its new one. Where it
/// answers, and all that it has to do with is on one disk, it has left the other one alone.
#[inline(always)]
pub fn do_process_call<T: Trace>(
    call: ProcessCall,
    p: &mut Procs,
    tree: &mut Tree,
    s: Slot,
    args: [u16; 4],
    trace: &mut T,
) -> Result<Answer, PanicKind>
    requires calls { Calls p.old tree.old.nodes s }
    requires marks { IsMarked p.old tree.old.marks }
    requires mounts { AreMounts tree.old.mounts tree.old.nodes.store }
    ensures does { HasDone p.old p.new tree.new.nodes result (T.taken trace.old) (T.taken trace.new)
        (process_row call tree.old.mounts (handed p.old tree.old.nodes) s args) }
    ensures apart { let w = handed p.old tree.old.nodes in IfOk result (λ answer.
        its.LeavesOther w s (process_named call tree.old.mounts w s args) (record (process_row call tree.old.mounts w s args) {
          state = handed p.new tree.new.nodes;
        })) }
    ensures unmounted { IfOk result (λ answer. RunsOnRoot tree.old.mounts (handed p.old tree.old.nodes) s
        → tree.new.nodes.store.second ≡ tree.old.nodes.store.second) }
    ensures frame { T.leads_to trace.old trace.new }
    ensures agree { IfOk result (λ answer. AreProcs p.new) }
    ensures left { IfErr result (λ kind. AreProcs p.new ⊎ AreBare p.new s) }
    ensures marks { IsMarked p.new tree.new.marks }
    ensures mounts { tree.new.mounts ≡ tree.old.mounts }
    ensures blocks { SameRest tree.old.nodes tree.new.nodes }
{
    do_process_row(call, p, tree, s, args, trace)
}
