//! What the calls work on: a small disk, the table of open files, the console, and one process at a time.
ghost use Rattle.std.specs.Prelude.{◌≡◌, ◌<◌, ◌≤◌, ℕ, true, None, IfOk, IfSome, slice_index};
ghost use Rattle.fs_nodes.specs.Keys.{counts};
ghost use Rattle.file_rows.specs.Ready.{IsReady};

use crate::file_system::opened::open;
use crate::system_calls::disk::image;
use fs_nodes::Nodes;
use fs_tree::Tree;
use lines_eight::Lines;
use open_files::OpenTable;
use proc_tab::Row;
use std::alloc::{AllocError, Global};
use sys_files::{Files, Pipes};
use u_area::UArea;
use v6_base::{Space, Tape, Whole};

/// The parts that a call is handed, and the time.
#[derive(Drop)]
pub struct World {
    pub files: Files,
    pub u: UArea,
    pub row: Row,
    pub space: Whole,
    pub tape: Tape,
    pub now: u32,
}

/// Where the data end, and where the stack begins: what lies between them cannot be read or written.
pub const DATA_END: u16 = 1280;

const STACK: u16 = 65472;

/// A process of user 0 in the root, which is inode 1, without an open file.
const PROCESS: UArea = UArea {
    r: [0; 8],
    cc: 0,
    uid: 0,
    gid: 0,
    ruid: 0,
    rgid: 0,
    dir: 1,
    text_size: 0,
    data_size: 20,
    stack_size: 1,
    pending: 0,
    call: [0; 8],
    user_time: 0,
    system_time: 0,
    child_user: 0,
    child_system: 0,
    status: 0,
    handlers: [0; 20],
    files: [0; 15],
};

/// Its row, without a terminal.
const ROW: Row = Row {
    pid: 1,
    ppid: 0,
    uid: 0,
    sig: 0,
    tty: 0,
};

/// A memory of 1,280 bytes of data, from address 0 on, and of 64 bytes of stack, up to address 65,535. Each byte is the low byte
/// of its address.
fn memory(alloc: Global) -> Result<Whole, AllocError> {
    let mut space = Whole::new(alloc)?;
    space.set_sizes(0, 20, 1);
    for at in (0..DATA_END).chain(STACK..=u16::MAX) {
        let _ = space.store_byte(at, (at % 256) as u8);
    }
    Ok(space)
}

/// Refers to an inode that is used, and to which nobody refers yet.
fn refer(nodes: &mut Nodes, ino: u16)
    requires { (i : ℕ) → slice_index nodes.old.references i ≤ 1 }
    ensures few { (i : ℕ) → slice_index nodes.new.references i ≤ 1 }
    ensures store { nodes.new.store ≡ nodes.old.store }
{
    if nodes.peek(ino).is_some() && nodes.refs(ino) == 0 {
        let _ = nodes.take(ino);
    }
}

/// Refers to so many inodes from number 30 on, and to the root.
fn refer_to_crowd(nodes: &mut Nodes, crowd: u16)
    requires { (i : ℕ) → slice_index nodes.old.references i ≡ 0 }
    ensures few { (i : ℕ) → slice_index nodes.new.references i ≤ 1 }
    ensures store { nodes.new.store ≡ nodes.old.store }
{
    for ino in 30..crowd.saturating_add(30) {
        refer(nodes, ino);
    }
    refer(nodes, 1);
}

/// Refers to the root once more.
fn refer_to_root(nodes: &mut Nodes) -> bool
    requires { (i : ℕ) → slice_index nodes.old.references i ≤ 1 }
    ensures few { (i : ℕ) → slice_index nodes.new.references i ≤ 2 }
    ensures root { result ≡ true → 0 < slice_index nodes.new.references 1 }
    ensures store { nodes.new.store ≡ nodes.old.store }
{
    nodes.see();
    if nodes.refs(1) > 8 {
        return false;
    }
    match nodes.take(1) {
        Ok(()) => true,
        Err(_) => false,
    }
}

/// The parts before the first call.
fn parts(nodes: Nodes, space: Whole, tape: Tape) -> World
    requires few { (i : ℕ) → slice_index nodes.references i ≤ 2 }
    requires root { 0 < slice_index nodes.references 1 }
    requires one { nodes.store.second ≡ None }
    requires words { nodes.store.root.count ≤ 65535 }
    ensures ready { IsReady result.files.table result.files.pipes result.u.files result.u.dir result.files.tree.mounts
        result.files.tree.nodes.references (counts result.files.tree.nodes.store) }
    ensures few { (i : ℕ) → slice_index result.files.tree.nodes.references i ≤ 2 }
{
    World {
        files: Files {
            tree: Tree::new(nodes),
            table: OpenTable::new(),
            lines: Lines::new(1),
            pipes: Pipes::new(),
        },
        u: PROCESS,
        row: ROW,
        space,
        tape,
        now: 0x0005_0006,
    }
}

/// The world in which a scene begins: the disk with some of its words changed, and so many inodes from number 30 on to which others
/// refer.
pub fn begin(
    alloc: Global,
    changes: &[(usize, u16)],
    crowd: u16,
) -> Result<Option<World>, AllocError>
    ensures ready { IfOk result (λ found. IfSome found (λ w.
        IsReady w.files.table w.files.pipes w.u.files w.u.dir w.files.tree.mounts
        w.files.tree.nodes.references (counts w.files.tree.nodes.store))) }
    ensures few { IfOk result (λ found. IfSome found (λ w.
        (i : ℕ) → slice_index w.files.tree.nodes.references i ≤ 2)) }
{
    let bytes = image(changes);
    let space = memory(alloc)?;
    let tape = Tape::new(alloc, 64, 4096)?;
    let Some(mut nodes) = open(alloc, &bytes)? else {
        return Ok(None);
    };
    if nodes.root_count() > 65535 {
        return Ok(None);
    }
    refer_to_crowd(&mut nodes, crowd);
    if refer_to_root(&mut nodes) {
        Ok(Some(parts(nodes, space, tape)))
    } else {
        Ok(None)
    }
}
