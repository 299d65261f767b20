//! The tests of exec(II).
ghost use Rattle.std.specs.Prelude.{◌≡◌, ◌<◌, ◌≤◌, ◌==◌, ◌&&◌, ℕ, nat_lt, false, not, List, Ok, is_none, IfOk, slice_index};
ghost use Rattle.std.specs.Option.{unwrap_or};
ghost use Rattle.v6_base.specs.Access.{then_do};
ghost use Rattle.v6_base.specs.declared.errno.Errno.TheVariants.{EACCES, ENOEXEC, ENOMEM, ETXTBSY};
ghost use Rattle.fs_codec.specs.Modes.{file_type};
ghost use Rattle.fs_laws.specs.Pieces.{Moving};
ghost use Rattle.fs_nodes.specs.FileSystem.{SameRest};
ghost use Rattle.fs_tree.specs.declared.user.Want.TheVariants.{Execute};
ghost use Rattle.fs_tree.specs.Permission.{permission};
ghost use Rattle.fs_tree.specs.Name.{name_at};
ghost use Rattle.fs_tree.specs.Finding.{inodes_of, find_in};
ghost use Rattle.aout_head.specs.Header.{header_of, plan_of};
ghost use Rattle.seg_regs.specs.Sizes.{is_refused};
ghost use Rattle.fs_tree.specs.Mounting.{AreMounts};
ghost use Rattle.sys_procs.specs.Stack.{arguments, stack_clicks};
ghost use Rattle.sys_procs.specs.Tests.{must, user_of, node_in};
ghost use Rattle.sys_procs.specs.Handed.{Calls, IsAlive, handed, process_here};
ghost use Rattle.sys_procs.specs.inside.Handed.{memory_here};
ghost use Rattle.sys_procs.specs.ExecFile.{clicks, text_clicks_by, text_clicks_in, entry_clicks, data_clicks, answer_to, is_magic, or_no_memory};
ghost use Rattle.sys_procs.specs.World.{texts_in};
ghost use Rattle.image_keep.specs.Growth.{most_clicks};
ghost use Rattle.sys_procs.specs.ExecFile.{is_busy_in, with_moved, header_read, tests_header, tests_file, tests};
ghost use Rattle.sys_procs.specs.inside.Tested.{AreSized, IsTested};

use crate::arguments::{Arguments, read_arguments};
use crate::placing::STACK;
use crate::procs::Procs;
use crate::program::Program;
use aout_head::{ExecFault, Plan, plan};
use fs_codec::{file_type, word_at};
use fs_nodes::{Moved, Nodes};
use fs_tree::{NameBytes, Tree, User, Want, let_go};
use image_keep::Images;
use seg_regs::Proto;
use u_area::UArea;
use v6_base::{Errno, Slot, Space};

/// The bytes of a header.
const HEADER_SIZE: u16 = 16;

/// The magic number of a program whose text isn't apart from its data: a.out(V).
const PLAIN_MAGIC: u16 = 0o407;

/// Who a process is to files.
fn user_of(u: &UArea) -> User
    ensures { result ≡ record { uid = u.now.uid; gid = u.now.gid } }
{
    User {
        uid: u.uid,
        gid: u.gid,
    }
}

/// Finds the inode of the name at an address, and refers to it once more.
///
/// # Errors
///
/// Those of `Tree::find`.
fn find_name<S: Space>(tree: &mut Tree, u: &UArea, space: &S, name: u16) -> Result<u16, Errno>
    requires directory { 0 < slice_index tree.old.nodes.references u.now.dir }
    requires few { (ino : ℕ) → slice_index tree.old.nodes.references ino ≤ 65500 }
    requires mounts { AreMounts tree.old.mounts tree.old.nodes.store }
    ensures answer { result
        ≡ (find_in (inodes_of tree.old.nodes) tree.old.mounts (record { uid = u.now.uid; gid = u.now.gid }) u.now.dir
        (name_at (S.image space.now) name)).answer }
    ensures inodes { inodes_of tree.new.nodes
        ≡ (find_in (inodes_of tree.old.nodes) tree.old.mounts (record { uid = u.now.uid; gid = u.now.gid }) u.now.dir
        (name_at (S.image space.now) name)).inodes }
    ensures referenced { IfOk result (λ ino. 0 < slice_index tree.new.nodes.references ino) }
    ensures marks { tree.new.marks ≡ tree.old.marks }
    ensures mounts { tree.new.mounts ≡ tree.old.mounts }
    ensures blocks { tree.new.nodes.blocks ≡ tree.old.nodes.blocks }
{
    tree.nodes.see();
    tree.find(u.dir, user_of(u), NameBytes::at(space, name))
}

/// Finds the inode of a name that a process gives, and refers to it once more.
///
/// # Errors
///
/// Those of a name.
fn find_program(p: &mut Procs, tree: &mut Tree, s: Slot, name: u16) -> Result<u16, Errno>
    requires calls { Calls p.old tree.old.nodes s }
    requires mounts { AreMounts tree.old.mounts tree.old.nodes.store }
    ensures answer { result
        ≡ (find_in (inodes_of tree.old.nodes) tree.old.mounts (user_of (process_here p.old s)) (process_here p.old s).u.dir
        (name_at (memory_here p.old s) name)).answer }
    ensures inodes { inodes_of tree.new.nodes
        ≡ (find_in (inodes_of tree.old.nodes) tree.old.mounts (user_of (process_here p.old s)) (process_here p.old s).u.dir
        (name_at (memory_here p.old s) name)).inodes }
    ensures referenced { IfOk result (λ ino. 0 < slice_index tree.new.nodes.references ino) }
    ensures procs { p.new ≡ p.old }
    ensures marks { tree.new.marks ≡ tree.old.marks }
    ensures mounts { tree.new.mounts ≡ tree.old.mounts }
    ensures blocks { tree.new.nodes.blocks ≡ tree.old.nodes.blocks }
{
    let u = p.images.area(s);
    let space = p.images.space(s);
    find_name(tree, &u, &space, name)
}

/// Whether a user may execute the file of an inode that is referred to.
///
/// # Errors
///
/// `EACCES`: the user may not.
fn may_execute(tree: &Tree, ino: u16, who: User) -> Result<(), Errno>
    requires { 0 < slice_index tree.now.nodes.references ino }
    ensures { result ≡ permission (node_in tree.now.nodes.store ino) who Execute }
{
    tree.nodes.see();
    tree.access(ino, who, Want::Execute)
}

/// Whether an inode that is referred to is that of a plain file.
fn is_plain(nodes: &Nodes, ino: u16) -> bool
    requires { 0 < slice_index nodes.now.references ino }
    ensures { result ≡ (file_type (node_in nodes.now.store ino).mode == 0) }
{
    file_type(nodes.node(ino).mode) == 0
}

/// Tests a file that is referred to, and reads the arguments.
///
/// # Errors
///
/// `EACCES`: the process may not execute the file, or it is no plain file. Those of the arguments.
fn test_call(p: &mut Procs, tree: &Tree, s: Slot, ino: u16, list: u16) -> Result<Arguments, Errno>
    requires alive { IsAlive p.old s }
    requires referenced { 0 < slice_index tree.now.nodes.references ino }
    ensures answer { result
        ≡ then_do (permission (node_in tree.now.nodes.store ino) (user_of (process_here p.old s)) Execute) (λ may.
        then_do (must EACCES (file_type (node_in tree.now.nodes.store ino).mode == 0)) (λ plain.
        arguments (memory_here p.old s) list)) }
    ensures procs { p.new ≡ p.old }
{
    let u = p.area(s);
    may_execute(tree, ino, user_of(&u))?;
    if !is_plain(&tree.nodes, ino) {
        return Err(Errno::EACCES);
    }
    p.images.see_kept();
    read_arguments(&mut p.images, s, list)
}

/// Whether a header has the magic number of a program.
fn is_magic(planned: &Result<Plan, ExecFault>) -> bool
    ensures { result ≡ is_magic planned.now }
{
    !matches!(planned, Err(ExecFault::NotExecutable))
}

/// The clicks of the text that a file has in the table of texts, if any.
fn entry_clicks(images: &Images, ino: u16) -> Option<u16>
    ensures clicks { result ≡ entry_clicks (texts_in images.now.kept) ino }
    ensures sized { (size : ℕ) → AreSized (texts_in images.now.kept) ino (unwrap_or result size) }
{
    match images.find_text(ino) {
        Some(t) => Some(images.text_row(t).clicks),
        None => None,
    }
}

/// Whether the text of a program would be shared, while others use its file, and isn't in the table of texts.
fn is_busy(head: &[u8; 16], references: u16, there: Option<u16>) -> bool
    ensures { result ≡ not ((header_of head.now).magic == 0o407) && not ((header_of head.now).text_size == 0)
        && nat_lt 1 references && is_none there }
{
    word_at(head, 0) != PLAIN_MAGIC && word_at(head, 2) != 0 && references > 1 && there.is_none()
}

/// The clicks of so many bytes.
fn clicks(bytes: u32) -> u16
    requires { bytes ≤ 196605 }
    ensures { result ≡ clicks bytes }
{
    ((bytes + 63) / 64) as u16
}

/// The clicks of the text of a program, whose file has one of so many in the table of texts, if any.
fn text_clicks(plan: &Plan, there: Option<u16>) -> u16
    ensures { result ≡ text_clicks_by there plan.now }
{
    if plan.text == 0 {
        0
    } else {
        there.unwrap_or(clicks(u32::from(plan.text)))
    }
}

/// Whether an image of these sizes is refused, where so many clicks are the most.
fn is_refused(plan: &Plan, text: u16, limit: u16) -> bool
    requires { plan.now.init ≤ 131070 }
    ensures { result ≡ is_refused text (data_clicks plan.now) stack_clicks limit }
{
    let filled = clicks(plan.init + u32::from(plan.bss));
    Proto::make(text, filled, STACK, limit).is_err()
}

/// The sizes of a program, where an image can have them. Its file has a text of so many clicks in the table, if any.
///
/// # Errors
///
/// `ENOMEM`: it can't, or text and data have address spaces of their own.
fn fitting(planned: Result<Plan, ExecFault>, there: Option<u16>, limit: u16) -> Result<Plan, Errno>
    requires { IfOk planned (λ plan. plan.init ≤ 131070) }
    ensures answer { result ≡ then_do (or_no_memory planned) (λ plan.
        then_do (must ENOMEM (not (is_refused (text_clicks_by there plan) (data_clicks plan) stack_clicks limit))) (λ fits.
        Ok plan)) }
    ensures fits { IfOk result (λ plan.
        is_refused (text_clicks_by there plan) (data_clicks plan) stack_clicks limit ≡ false) }
    ensures most { IfOk result (λ plan. plan.init ≤ 131070) }
    ensures plan { IfOk result (λ plan. planned ≡ Ok plan) }
{
    let Ok(plan) = planned else {
        return Err(Errno::ENOMEM);
    };
    if is_refused(&plan, text_clicks(&plan, there), limit) {
        return Err(Errno::ENOMEM);
    }
    Ok(plan)
}

/// The program of a file by its header, of which so many bytes were read.
///
/// # Errors
///
/// `ENOSPC`: no block was free for a hole in the header. `ENOEXEC`: it is too short, or has no magic number of a
/// program. `ETXTBSY`: the text would be shared, and others use the file. `ENOMEM`: no image can have these sizes.
fn judge_header(
    images: &Images,
    nodes: &Nodes,
    ino: u16,
    args: Arguments,
    head: &[u8; 16],
    read: Moved,
) -> Result<Program, Errno>
    ensures answer { result ≡ then_do (answer_to read.error) (λ whole.
        then_do (must ENOEXEC ((read.done == 16) && is_magic (plan_of (header_of head.now)))) (λ program.
        then_do (must ETXTBSY (not (is_busy_in (texts_in images.now.kept) (slice_index nodes.now.references ino) ino
        (header_of head.now)))) (λ free.
        then_do (or_no_memory (plan_of (header_of head.now))) (λ plan.
        then_do (must ENOMEM (not (is_refused (text_clicks_in (texts_in images.now.kept) ino plan) (data_clicks plan) stack_clicks
        (most_clicks images.now.kept)))) (λ fits.
        Ok (record {
          ino = ino;
          plan = plan;
          text_clicks = text_clicks_in (texts_in images.now.kept) ino plan;
          arguments = args;
        })))))) }
    ensures ino { IfOk result (λ program. program.ino ≡ ino) }
    ensures fits { IfOk result (λ program.
        is_refused program.text_clicks (data_clicks program.plan) stack_clicks (most_clicks images.now.kept) ≡ false) }
    ensures most { IfOk result (λ program. program.plan.init ≤ 131070) }
    ensures shared { IfOk result (λ program. 0 < program.text_clicks
        → AreSized (texts_in images.now.kept) ino program.text_clicks) }
{
    if let Some(e) = read.error {
        return Err(e);
    }
    let planned = plan(head);
    if read.done != HEADER_SIZE || !is_magic(&planned) {
        return Err(Errno::ENOEXEC);
    }
    let there = entry_clicks(images, ino);
    if is_busy(head, nodes.refs(ino), there) {
        return Err(Errno::ETXTBSY);
    }
    let plan = fitting(planned, there, images.limit())?;
    Ok(Program {
        ino,
        text_clicks: text_clicks(&plan, there),
        plan,
        arguments: args,
    })
}

/// Tests the header of a file that is referred to.
///
/// # Errors
///
/// Those of the header. The inode is referred to once less then.
fn test_header(
    p: &Procs,
    tree: &mut Tree,
    ino: u16,
    args: Arguments,
    head: &[u8; 16],
    read: Moved,
) -> Result<Program, Errno>
    requires referenced { 0 < slice_index tree.old.nodes.references ino }
    ensures answer { (m : Moving (List ℕ)) → m.memory ≡ head.now → m.done ≡ read.done → m.error ≡ read.error
        → result ≡ (tests_header (handed p.now tree.old.nodes) ino args m).answer }
    ensures state { (m : Moving (List ℕ)) → m.memory ≡ head.now → m.done ≡ read.done → m.error ≡ read.error
        → handed p.now tree.new.nodes ≡ (tests_header (handed p.now tree.old.nodes) ino args m).world }
    ensures tested { IfOk result (IsTested (handed p.now tree.new.nodes)) }
    ensures marks { tree.new.marks ≡ tree.old.marks }
    ensures mounts { tree.new.mounts ≡ tree.old.mounts }
    ensures blocks { SameRest tree.old.nodes tree.new.nodes }
{
    tree.nodes.see();
    match judge_header(&p.images, &tree.nodes, ino, args, head, read) {
        Ok(program) => Ok(program),
        Err(e) => {
            let_go(&mut tree.nodes, ino, p.table.now);
            Err(e)
        }
    }
}

/// Reads and tests the header of a file that is referred to.
///
/// # Errors
///
/// Those of the header. The inode is referred to once less then.
fn read_header(p: &Procs, tree: &mut Tree, ino: u16, args: Arguments) -> Result<Program, Errno>
    requires referenced { 0 < slice_index tree.old.nodes.references ino }
    ensures answer { result ≡ (tests_header
        (with_moved (handed p.now tree.old.nodes) ino (header_read (handed p.now tree.old.nodes) ino)) ino args
        (header_read (handed p.now tree.old.nodes) ino)).answer }
    ensures state { handed p.now tree.new.nodes ≡ (tests_header
        (with_moved (handed p.now tree.old.nodes) ino (header_read (handed p.now tree.old.nodes) ino)) ino args
        (header_read (handed p.now tree.old.nodes) ino)).world }
    ensures tested { IfOk result (IsTested (handed p.now tree.new.nodes)) }
    ensures marks { tree.new.marks ≡ tree.old.marks }
    ensures mounts { tree.new.mounts ≡ tree.old.mounts }
    ensures blocks { SameRest tree.old.nodes tree.new.nodes }
{
    tree.nodes.see();
    let mut head = [0; 16];
    let read = tree.nodes.read_kernel(ino, 0, &mut head, p.table.now);
    test_header(p, tree, ino, args, &head, read)
}

/// Tests a file that is referred to, the arguments and the header.
///
/// # Errors
///
/// Those of exec(II) but for those of the name. The inode is referred to once less then.
fn test_file(p: &mut Procs, tree: &mut Tree, s: Slot, ino: u16, list: u16) -> Result<Program, Errno>
    requires alive { IsAlive p.old s }
    requires referenced { 0 < slice_index tree.old.nodes.references ino }
    ensures answer { result ≡ (tests_file (handed p.old tree.old.nodes) s ino list).answer }
    ensures state { handed p.new tree.new.nodes ≡ (tests_file (handed p.old tree.old.nodes) s ino list).world }
    ensures procs { p.new ≡ p.old }
    ensures tested { IfOk result (IsTested (handed p.new tree.new.nodes)) }
    ensures marks { tree.new.marks ≡ tree.old.marks }
    ensures mounts { tree.new.mounts ≡ tree.old.mounts }
    ensures blocks { SameRest tree.old.nodes tree.new.nodes }
{
    match test_call(p, tree, s, ino, list) {
        Ok(args) => read_header(p, tree, ino, args),
        Err(e) => {
            let_go(&mut tree.nodes, ino, p.table.now);
            Err(e)
        }
    }
}

/// Finds a program by its name, and tests its file, its arguments and its header. Nothing changes but what the reading
/// of the header sets and touches, and that its inode is referred to once more.
///
/// # Errors
///
/// Those of exec(II); the inode isn't referred to then.
pub(crate) fn test_program(
    p: &mut Procs,
    tree: &mut Tree,
    s: Slot,
    name: u16,
    list: u16,
) -> Result<Program, Errno>
    requires calls { Calls p.old tree.old.nodes s }
    requires mounts { AreMounts tree.old.mounts tree.old.nodes.store }
    ensures answer { result ≡ (tests tree.old.mounts (handed p.old tree.old.nodes) s name list).answer }
    ensures state { handed p.new tree.new.nodes ≡ (tests tree.old.mounts (handed p.old tree.old.nodes) s name list).world }
    ensures procs { p.new ≡ p.old }
    ensures tested { IfOk result (IsTested (handed p.new tree.new.nodes)) }
    ensures marks { tree.new.marks ≡ tree.old.marks }
    ensures mounts { tree.new.mounts ≡ tree.old.mounts }
    ensures blocks { SameRest tree.old.nodes tree.new.nodes }
{
    let ino = find_program(p, tree, s, name)?;
    test_file(p, tree, s, ino, list)
}
