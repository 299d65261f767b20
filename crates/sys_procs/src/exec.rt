//! exec(II).
ghost use Rattle.std.specs.Prelude.{◌≡◌, ◌≤◌, ◌<◌, ◌+◌, ◌-◌, ◌*◌, ◌%◌, ◌==◌, if◌then◌else◌, ℕ, false, Some, None, List, length, IfOk, IfErr, IfSome, IsSome, map, replicate, slice_index, is_some, count_by};
ghost use Rattle.v6_base.specs.Image.{nseg};
ghost use Rattle.fs_laws.specs.Pieces.{piece_end};
ghost use Rattle.fs_nodes.specs.Keys.{with_node, node_numbered};
ghost use Rattle.fs_nodes.specs.FileSystem.{FileSystem, SameRest};
ghost use Rattle.seg_regs.specs.Sizes.{is_refused};
ghost use Rattle.image_keep.specs.Kept.{text_of};
ghost use Rattle.fs_tree.specs.Mounting.{AreMounts};
ghost use Rattle.sys_procs.specs.TextTable.{is_text_of, marks_of};
ghost use Rattle.sys_procs.specs.World.{texts_in, with_process};
ghost use Rattle.sys_procs.specs.Tests.{node_in};
ghost use Rattle.sys_procs.specs.Stack.{first_stack};
ghost use Rattle.sys_procs.specs.ExecFile.{exec_file, loads, begins_anew, data_clicks, cleared_image, data_in, with_text_read, reads_text, text_room, kept_handler, begun_area};
ghost use Rattle.sys_procs.specs.inside.Tested.{IsTested};
ghost use Rattle.sys_procs.specs.inside.Begun.{fills, begins_in, user_in, group_in, row_in, area_in};
ghost use Rattle.sys_procs.specs.inside.Parts.{part_in, with_part, IsUnread, KeepsOthers};
ghost use Rattle.sys_procs.specs.Handed.{AreProcs, AreBare, Calls, IsAlive, IsMarked, board, handed, process_here};
ghost use Rattle.sys_procs.specs.inside.Handed.{IsBare, memory_here};
ghost use Rattle.sys_procs.specs.Done.{HasDone};

use crate::placing::{STACK, leave_place, place_image};
use crate::procs::Procs;
use crate::program::Program;
use crate::seen::{see, see_texts};
use crate::stack::put_stack;
use crate::tested::test_program;
use crate::texts::{leave_text, take_text};
use aout_head::Plan;
use fs_codec::{BLOCK_SIZE, ISGID, ISUID};
use fs_nodes::Nodes;
use fs_tree::{Tree, let_go};
use proc_tab::Row;
use text_tab::TextId;
use u_area::UArea;
use v6_base::{Answer, Errno, PanicKind, Slot, Space, Trace};

/// Where text and data begin in a file: a.out(V).
const HEADER: u32 = 16;

/// The bytes of a block of a disk.
const BLOCK: u32 = BLOCK_SIZE as u32;

/// The clicks of the data of a program, with the bss.
fn data_clicks(plan: &Plan) -> u16
    requires { plan.now.init ≤ 131070 }
    ensures clicks { result ≡ data_clicks plan.now }
    ensures few { result ≤ 3073 }
{
    ((plan.init + u32::from(plan.bss) + 63) / 64) as u16
}

/// What a signal does in a new program: what is ignored stays so.
fn kept_handler(handler: u16) -> u16
    ensures { result ≡ kept_handler handler }
{
    if handler % 2 == 0 { 0 } else { handler }
}

/// Lets the routines for signals go.
fn keep_ignored(handlers: &mut [u16; 20])
    ensures { handlers.new ≡ map kept_handler handlers.old }
{
    for handler in handlers.iter_mut() {
        *handler = kept_handler(*handler);
    }
}

/// The u area in which a program without a text begins, from the one of the process.
fn begun_area(u: UArea, program: &Program) -> UArea
    requires init { program.now.plan.init ≤ 131070 }
    ensures { result ≡ begun_area u program.now }
{
    let mut u = u;
    u.r = [0, 0, 0, 0, 0, 0, program.arguments.first_sp(), 0];
    u.cc = 0;
    u.text_size = program.text_clicks;
    u.data_size = data_clicks(&program.plan);
    u.stack_size = STACK;
    keep_ignored(&mut u.handlers);
    u
}

/// The user in a program that a user executes, in place of another: the owner of the file, where it has the bit of
/// set-uid and the super-user doesn't execute it.
fn user_in(nodes: &Nodes, ino: u16, uid: u8, own: u8) -> u8
    requires { 0 < slice_index nodes.now.references ino }
    ensures { result ≡ user_in (node_in nodes.now.store ino) uid own }
{
    let node = nodes.node(ino);
    if node.mode & ISUID != 0 && uid != 0 {
        node.uid
    } else {
        own
    }
}

/// The group in a program, in place of another: that of the file, where it has the bit of set-gid.
fn group_in(nodes: &Nodes, ino: u16, own: u8) -> u8
    requires { 0 < slice_index nodes.now.references ino }
    ensures { result ≡ group_in (node_in nodes.now.store ino) own }
{
    let node = nodes.node(ino);
    if node.mode & ISGID != 0 {
        node.gid
    } else {
        own
    }
}

/// The row of a process in a new program.
fn new_row(nodes: &Nodes, ino: u16, uid: u8, row: Row) -> Row
    requires { 0 < slice_index nodes.now.references ino }
    ensures { result ≡ row_in (node_in nodes.now.store ino) uid row }
{
    let user = user_in(nodes, ino, uid, row.uid);
    Row { uid: user, ..row }
}

/// The u area of a process in a new program.
fn new_area(nodes: &Nodes, u: UArea, program: &Program) -> UArea
    requires referenced { 0 < slice_index nodes.now.references program.now.ino }
    requires init { program.now.plan.init ≤ 131070 }
    ensures { result ≡ area_in (node_in nodes.now.store program.now.ino) u program.now }
{
    let uid = user_in(nodes, program.ino, u.uid, u.uid);
    let gid = group_in(nodes, program.ino, u.gid);
    let mut begun = begun_area(u, program);
    begun.uid = uid;
    begun.gid = gid;
    begun
}

/// How many bytes the text of a program has.
fn text_room(program: &Program) -> u32
    requires fits { is_refused program.now.text_clicks (data_clicks program.now.plan) 20 2048 ≡ false }
    ensures count { result ≡ text_room program.now }
    ensures few { result ≤ 57344 }
{
    u32::from(program.plan.text).min(64 * u32::from(program.text_clicks))
}

/// Where the part of a text ends that begins at a byte: with its block of the file, or with the text.
fn part_end(at: u32, end: u32) -> u32
    requires before { at < end }
    requires few { end ≤ 57344 }
    ensures { 16 + result ≡ piece_end (16 + at) (16 + end) }
{
    end.min(at + BLOCK - (HEADER + at) % BLOCK)
}

/// Reads a part of the text of a program, up to a byte. The answer is the error with which that ends, if any.
fn read_part(
    p: &mut Procs,
    tree: &mut Tree,
    t: TextId,
    program: &Program,
    at: u32,
    end: u32,
) -> Option<Errno>
    requires unread { IsUnread p.old.images.kept t program.now.text_clicks at }
    requires before { at < end }
    requires few { end ≤ at + 512 }
    requires fits { end ≤ 64 * program.now.text_clicks }
    requires referenced { 0 < slice_index tree.old.nodes.references program.now.ino }
    ensures state { handed p.new tree.new.nodes ≡ with_part (handed p.old tree.old.nodes) t program.now at (end - at) }
    ensures error { result ≡ (part_in tree.old.nodes.store program.now at (end - at) p.old.table.now).error }
    ensures there { IsSome (node_numbered tree.old.nodes.store program.now.ino) }
    ensures unread { IsUnread p.new.images.kept t program.now.text_clicks end }
    ensures others { KeepsOthers p.old p.new tree.old tree.new }
{
    let mut bytes = [0; BLOCK_SIZE];
    let part = &mut bytes[..(end - at) as usize];
    tree.nodes.see();
    let read = tree
        .nodes
        .read_kernel(program.ino, HEADER + at, part, p.table.now);
    p.images.text_bytes(t, at, part);
    read.error
}

/// Reads the part of the text of a program that begins at a byte. The answer is where the next one begins: at the end, where the
/// file can't be read to it. What comes after that part stays zeros.
fn read_next(p: &mut Procs, tree: &mut Tree, t: TextId, program: &Program, at: u32, end: u32) -> u32
    requires unread { IsUnread p.old.images.kept t program.now.text_clicks at }
    requires before { at < end }
    requires few { end ≤ 57344 }
    requires fits { end ≤ 64 * program.now.text_clicks }
    requires referenced { 0 < slice_index tree.old.nodes.references program.now.ino }
    ensures further { at < result }
    ensures within { result ≤ end }
    ensures state { with_part (handed p.new tree.new.nodes) t program.now result (end - result)
        ≡ with_part (handed p.old tree.old.nodes) t program.now at (end - at) }
    ensures unread { IsUnread p.new.images.kept t program.now.text_clicks result }
    ensures others { KeepsOthers p.old p.new tree.old tree.new }
{
    let next = part_end(at, end);
    let error = read_part(p, tree, t, program, at, next);
    tree.nodes.see();
    match error {
        None => next,
        Some(_) => end,
    }
}

/// Reads the text of a program into one that is zeros, a block of its file at a time.
fn read_text(p: &mut Procs, tree: &mut Tree, s: Slot, t: TextId, program: &Program)
    requires alive { IsAlive p.old s }
    requires text { text_of p.old.images.kept s ≡ Some t }
    requires unread { IsUnread p.old.images.kept t program.now.text_clicks 0 }
    requires referenced { 0 < slice_index tree.old.nodes.references program.now.ino }
    requires fits { is_refused program.now.text_clicks (data_clicks program.now.plan) 20 2048 ≡ false }
    ensures state { handed p.new tree.new.nodes ≡ with_text_read (handed p.old tree.old.nodes) s program.now }
    ensures board { board p.new ≡ board p.old }
    ensures references { tree.new.nodes.references ≡ tree.old.nodes.references }
    ensures marks { tree.new.marks ≡ tree.old.marks }
    ensures mounts { tree.new.mounts ≡ tree.old.mounts }
    ensures blocks { SameRest tree.old.nodes tree.new.nodes }
    ensures marked { marks_of (texts_in p.new.images.kept) ≡ marks_of (texts_in p.old.images.kept) }
    ensures alive { IsAlive p.new s }
{
    let end = text_room(program);
    let mut at = 0;
    while at < end {
        at = read_next(p, tree, t, program, at, end);
    }
    tree.nodes.see();
}

/// Reads the text of a program, if it is new.
fn fill_text(p: &mut Procs, tree: &mut Tree, s: Slot, new: Option<TextId>, program: &Program)
    requires alive { IsAlive p.old s }
    requires text { IfSome new (λ t. text_of p.old.images.kept s ≡ Some t) }
    requires unread { IfSome new (λ t. IsUnread p.old.images.kept t program.now.text_clicks 0) }
    requires referenced { 0 < slice_index tree.old.nodes.references program.now.ino }
    requires fits { is_refused program.now.text_clicks (data_clicks program.now.plan) 20 2048 ≡ false }
    ensures state { handed p.new tree.new.nodes ≡ reads_text (is_some new) (handed p.old tree.old.nodes) s program.now }
    ensures board { board p.new ≡ board p.old }
    ensures references { tree.new.nodes.references ≡ tree.old.nodes.references }
    ensures marks { tree.new.marks ≡ tree.old.marks }
    ensures mounts { tree.new.mounts ≡ tree.old.mounts }
    ensures blocks { SameRest tree.old.nodes tree.new.nodes }
    ensures marked { marks_of (texts_in p.new.images.kept) ≡ marks_of (texts_in p.old.images.kept) }
    ensures alive { IsAlive p.new s }
{
    if let Some(t) = new {
        read_text(p, tree, s, t, program);
    }
}

/// Where the data of a program begin, which has a text of so many clicks.
fn data_at(text: u16) -> u16
    requires { text ≤ 1024 }
    ensures { result ≡ 8192 * nseg text % 65536 }
{
    8192_u16.wrapping_mul((text + 127) / 128)
}

/// Fills the data and the stack of a program, which are cleared: its data are read, and its arguments stand at the end of
/// the stack.
fn fill<S: Space>(nodes: &mut Nodes, space: &mut S, program: &Program, now: u32)
    requires referenced { 0 < slice_index nodes.old.references program.now.ino }
    requires fits { is_refused program.now.text_clicks (data_clicks program.now.plan) 20 2048 ≡ false }
    requires cleared { (text : List ℕ) × (length text ≡ 64 * program.now.text_clicks)
        × (S.image space.old ≡ cleared_image text program.now.plan) }
    ensures image { (text : List ℕ) → S.image space.old ≡ cleared_image text program.now.plan → S.image space.new
        ≡ record (data_in nodes.old.store text program.now now).memory { stack = first_stack program.now.arguments } }
    ensures rest { S.rest space.new ≡ S.rest space.old }
    ensures store { (text : List ℕ) → S.image space.old ≡ cleared_image text program.now.plan → nodes.new.store
        ≡ with_node nodes.old.store program.now.ino (data_in nodes.old.store text program.now now).node
        (data_in nodes.old.store text program.now now).room }
    ensures references { nodes.new.references ≡ nodes.old.references }
    ensures blocks { SameRest nodes.old nodes.new }
{
    nodes.see();
    let count = program.plan.init as u16;
    let at = data_at(program.text_clicks);
    let _ = nodes.read_at(
        program.ino,
        HEADER + u32::from(program.plan.text),
        space,
        at,
        count,
        now,
    );
    put_stack(space, &program.arguments);
}

/// Fills the image of a process, which is cleared, with a program.
fn fill_image(p: &mut Procs, tree: &mut Tree, s: Slot, program: &Program)
    requires alive { IsAlive p.old s }
    requires referenced { 0 < slice_index tree.old.nodes.references program.now.ino }
    requires fits { is_refused program.now.text_clicks (data_clicks program.now.plan) 20 2048 ≡ false }
    requires cleared { memory_here p.old s ≡ cleared_image (memory_here p.old s).text program.now.plan }
    requires text_size { (process_here p.old s).u.text_size ≡ program.now.text_clicks }
    ensures state { handed p.new tree.new.nodes ≡ fills (handed p.old tree.old.nodes) s program.now }
    ensures references { tree.new.nodes.references ≡ tree.old.nodes.references }
    ensures marks { tree.new.marks ≡ tree.old.marks }
    ensures mounts { tree.new.mounts ≡ tree.old.mounts }
    ensures blocks { SameRest tree.old.nodes tree.new.nodes }
    ensures board { board p.new ≡ board p.old }
    ensures alive { IsAlive p.new s }
{
    let now = p.table.now;
    p.images.see_kept();
    let mut space = p.images.space(s);
    fill(&mut tree.nodes, &mut space, program, now);
}

/// Lets a process begin in another row and another u area, for the image that it has.
fn begin(p: &mut Procs, s: Slot, row: Row, u: &UArea)
    requires alive { IsAlive p.old s }
    requires pid { row.pid ≡ (process_here p.old s).row.pid }
    requires ppid { row.ppid ≡ (process_here p.old s).row.ppid }
    requires text { u.now.text_size ≡ (process_here p.old s).u.text_size }
    requires data_size { u.now.data_size ≡ (process_here p.old s).u.data_size }
    requires stack_size { u.now.stack_size ≡ (process_here p.old s).u.stack_size }
    ensures state { (fs : FileSystem) → handed p.new fs
        ≡ with_process (handed p.old fs) s (record (process_here p.old s) { row = row; u = u.now }) }
    ensures board { board p.new ≡ board p.old }
    ensures alive { IsAlive p.new s }
{
    p.put_row(s, row);
    p.put_area(s, u);
}

/// Fills the image of a process, which is cleared, and its text, if that is new, with a program. The process begins in
/// another row and another u area, and the call lets the file go.
fn fill_program(
    p: &mut Procs,
    tree: &mut Tree,
    s: Slot,
    new: Option<TextId>,
    program: &Program,
    row: Row,
    u: &UArea,
)
    requires alive { IsAlive p.old s }
    requires text { IfSome new (λ t. text_of p.old.images.kept s ≡ Some t) }
    requires unread { IfSome new (λ t. IsUnread p.old.images.kept t program.now.text_clicks 0) }
    requires referenced { 0 < slice_index tree.old.nodes.references program.now.ino }
    requires fits { is_refused program.now.text_clicks (data_clicks program.now.plan) 20 2048 ≡ false }
    requires zeros { (process_here p.old s).data ≡ replicate (64 * data_clicks program.now.plan) 0 }
    requires stack { (process_here p.old s).stack ≡ replicate 1280 0 }
    requires here { (process_here p.old s).u.text_size ≡ program.now.text_clicks }
    requires pid { row.pid ≡ (process_here p.old s).row.pid }
    requires ppid { row.ppid ≡ (process_here p.old s).row.ppid }
    requires text_size { u.now.text_size ≡ (process_here p.old s).u.text_size }
    requires data_size { u.now.data_size ≡ (process_here p.old s).u.data_size }
    requires stack_size { u.now.stack_size ≡ (process_here p.old s).u.stack_size }
    ensures state { handed p.new tree.new.nodes
        ≡ begins_in (fills (reads_text (is_some new) (handed p.old tree.old.nodes) s program.now) s program.now) s
        program.now.ino row u.now }
    ensures board { board p.new ≡ board p.old }
    ensures marks { tree.new.marks ≡ tree.old.marks }
    ensures mounts { tree.new.mounts ≡ tree.old.mounts }
    ensures marked { marks_of (texts_in p.new.images.kept) ≡ marks_of (texts_in p.old.images.kept) }
    ensures blocks { SameRest tree.old.nodes tree.new.nodes }
    ensures alive { IsAlive p.new s }
{
    fill_text(p, tree, s, new, program);
    fill_image(p, tree, s, program);
    begin(p, s, row, u);
    let_go(&mut tree.nodes, program.ino, p.table.now);
}

/// Lets a process without an image execute a program that the tests have let through.
///
/// # Errors
///
/// `Text`: there are forty texts, and none is this program's. `Swap`: there is no room for its text or for its image.
fn begin_program<T: Trace>(
    p: &mut Procs,
    tree: &mut Tree,
    s: Slot,
    program: &Program,
    row: Row,
    u: &UArea,
    trace: &mut T,
) -> Result<Answer, PanicKind>
    requires bare { IsBare p.old s }
    requires none { text_of p.old.images.kept s ≡ None }
    requires marks { IsMarked p.old tree.old.marks }
    requires tested { IsTested (handed p.old tree.old.nodes) program.now }
    requires few { (i : ℕ) → slice_index tree.old.nodes.references i ≤ 65530 }
    requires pid { row.pid ≡ (process_here p.old s).row.pid }
    requires ppid { row.ppid ≡ (process_here p.old s).row.ppid }
    requires text_size { u.now.text_size ≡ program.now.text_clicks }
    requires data_size { u.now.data_size ≡ data_clicks program.now.plan }
    requires stack_size { u.now.stack_size ≡ 20 }
    ensures does { (v : UArea) → row ≡ row_in (node_in tree.old.nodes.store program.now.ino) v.uid (process_here p.old s).row
        → u.now ≡ area_in (node_in tree.old.nodes.store program.now.ino) v program.now
        → HasDone p.old p.new tree.new.nodes result (T.taken trace.old) (T.taken trace.new)
        (begins_anew (handed p.old tree.old.nodes) s v program.now) }
    ensures frame { T.leads_to trace.old trace.new }
    ensures agree { IfOk result (λ answer. AreProcs p.new) }
    ensures bare { IfErr result (λ kind. AreBare p.new s) }
    ensures marks { IsMarked p.new tree.new.marks }
    ensures mounts { tree.new.mounts ≡ tree.old.mounts }
    ensures blocks { SameRest tree.old.nodes tree.new.nodes }
{
    tree.nodes.see();
    let new = take_text(p, tree, s, program, trace)?;
    see_texts(&p.images);
    place_image(p, s, program.text_clicks, data_clicks(&program.plan), trace)?;
    fill_program(p, tree, s, new, program, row, u);
    Ok(Answer::Ret { r0: 0, r1: 0 })
}

/// Gives the text and the image of a process back, and lets it execute a program that the tests have let through.
///
/// # Errors
///
/// Those of a text or an image that finds no place.
fn load<T: Trace>(
    p: &mut Procs,
    tree: &mut Tree,
    s: Slot,
    program: &Program,
    trace: &mut T,
) -> Result<Answer, PanicKind>
    requires alive { IsAlive p.old s }
    requires marks { IsMarked p.old tree.old.marks }
    requires referred { (ino : ℕ) → count_by (is_text_of ino) (texts_in p.old.images.kept) + (if ino == program.now.ino then 1 else 0)
        ≤ slice_index tree.old.nodes.references ino }
    requires tested { IsTested (handed p.old tree.old.nodes) program.now }
    requires few { (i : ℕ) → slice_index tree.old.nodes.references i ≤ 65530 }
    ensures does { HasDone p.old p.new tree.new.nodes result (T.taken trace.old) (T.taken trace.new)
        (loads (handed p.old tree.old.nodes) s program.now) }
    ensures frame { T.leads_to trace.old trace.new }
    ensures agree { IfOk result (λ answer. AreProcs p.new) }
    ensures bare { IfErr result (λ kind. AreBare p.new s) }
    ensures marks { IsMarked p.new tree.new.marks }
    ensures mounts { tree.new.mounts ≡ tree.old.mounts }
    ensures blocks { SameRest tree.old.nodes tree.new.nodes }
{
    see(p, s);
    see_texts(&p.images);
    let u = p.area(s);
    let row = p.row(s);
    let row = new_row(&tree.nodes, program.ino, u.uid, row);
    let u = new_area(&tree.nodes, u, program);
    leave_text(p, tree, s, trace);
    leave_place(p, s, trace);
    begin_program(p, tree, s, program, row, &u, trace)
}

/// exec(II): the process executes another program, with arguments of its own. R0 to R5 and the PC are 0 as it begins,
/// and the arguments stand at the end of the stack. Open files stay, and so do signals that are ignored. Lions'
/// Commentary, `exec` in `sys1.c`.
///
/// # Errors
///
/// Of the tests in this order, none of which changes anything but that the header is read. Those of a name. `EACCES`:
/// the file may not be executed, or is no plain file. `EFAULT`: an argument can't be read. `E2BIG`: the arguments have
/// more than 510 bytes. `ENOSPC`: no block is free for a hole in the header. `ENOEXEC`: the file has no header of a
/// program. `ETXTBSY`: its text would be shared, and others use the file. `ENOMEM`: the sizes are refused.
/// The system stops where the old image has been given back, and one of these finds no place: `Text`, a new text, where
/// forty are there; `Swap`, a new text for which the swap area has no room, or the image, where core has none for it either.
/// Then the process has neither an image nor a place.
#[tactic(auto, using(crate::proofs::Alive::calls))]
pub fn exec_file<T: Trace>(
    p: &mut Procs,
    tree: &mut Tree,
    s: Slot,
    args: [u16; 4],
    trace: &mut T,
) -> Result<Answer, PanicKind>
    requires calls { Calls p.old tree.old.nodes s }
    requires marks { IsMarked p.old tree.old.marks }
    requires mounts { AreMounts tree.old.mounts tree.old.nodes.store }
    ensures does { HasDone p.old p.new tree.new.nodes result (T.taken trace.old) (T.taken trace.new)
        (exec_file tree.old.mounts (handed p.old tree.old.nodes) s (slice_index args 0) (slice_index args 1)) }
    ensures frame { T.leads_to trace.old trace.new }
    ensures agree { IfOk result (λ answer. AreProcs p.new) }
    ensures bare { IfErr result (λ kind. AreBare p.new s) }
    ensures marks { IsMarked p.new tree.new.marks }
    ensures mounts { tree.new.mounts ≡ tree.old.mounts }
    ensures blocks { SameRest tree.old.nodes tree.new.nodes }
{
    match test_program(p, tree, s, args[0], args[1]) {
        Ok(program) => load(p, tree, s, &program, trace),
        Err(e) => Ok(Answer::Fail(e)),
    }
}
