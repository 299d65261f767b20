//! The image of a process that a signal ends goes to the file `core`: core(V) of the manual; `core` in Lions' Commentary,
//! `sig.c`.
ghost use Rattle.std.specs.Prelude.{◌≡◌, ◌<◌, ◌≤◌, ◌*◌, ◌+◌, ◌-◌, ◌%◌, ℕ, List, Some, slice_index, length};
ghost use Rattle.v6_base.specs.Image.{text_alone, data_base};
ghost use Rattle.v6_base.specs.Copy.{load_bytes};
ghost use Rattle.v6_base.specs.declared.errno.Errno.TheVariants.{EACCES};
ghost use Rattle.proc_tab.specs.declared.row.Row.{Row};
ghost use Rattle.u_area.specs.Area.{area_bytes};
ghost use Rattle.fs_codec.specs.Store.{Node};
ghost use Rattle.fs_laws.specs.Pieces.{write_file};
ghost use Rattle.fs_nodes.specs.Keys.{node_numbered, room_at};
ghost use Rattle.fs_nodes.specs.Copy.{get_from};
ghost use Rattle.fs_nodes.specs.FileSystem.{SameRest};
ghost use Rattle.fs_tree.specs.Finding.{inodes_of};
ghost use Rattle.fs_tree.specs.Name.{name_at};
ghost use Rattle.fs_tree.specs.Entries.{answer_to, WritesEntry};
ghost use Rattle.fs_tree.specs.Mounting.{AreMounts};
ghost use Rattle.mount_tab.specs.Mounted.{split_of};
ghost use Rattle.sys_files.specs.Handed.{Handed, handed, node_in, with_inodes};
ghost use Rattle.sys_files.specs.Did.{must, unnamed};
ghost use Rattle.sys_files.specs.Sound.{IsSound, IsKept};
ghost use Rattle.sys_files.specs.Entering.{HasEntry, SameReferences, did_of};
ghost use Rattle.sys_files.specs.Making.{entry_written, enters_new};
ghost use Rattle.sys_files.specs.Core.{core_name, is_plain, writes_parts, writes_over, writes_new, writes_named};
ghost use Rattle.sys_files.specs.Core.{core_file, is_written};
ghost use Rattle.sys_files.specs.Frame.{LeavesOther};

use crate::creating::truncate;
use crate::entering::{Room, enter_new, find_to_make, make_inode};
use crate::files::Files;
use crate::inodes::{disk_of, inode_of};
use crate::naming::user_of;
use fs_codec::file_type;
use fs_nodes::{Moved, Nodes};
use fs_tree::{Made, Want, let_go};
use u_area::{AREA_SIZE, UArea};
use v6_base::{Errno, Fixed, Space};

/// The mode of a new file `core`.
const MODE: u16 = 0o666;

/// The bytes of a click.
const CLICK: u32 = 64;

/// The bytes of a segment.
const SEGMENT: u32 = 8192;

/// The bytes of all segments.
const SEGMENTS: u32 = 65536;

/// The bytes of a block.
const BLOCK: u32 = 512;

/// The most bytes that the first of two writes takes from the memory of a process: whole blocks.
const HALF: u32 = 32768;

/// The name, with NULs behind it.
fn core_name() -> Fixed
    ensures { name_at (text_alone result.bytes) 0 ≡ core_name }
{
    let mut bytes = [0; 64];
    bytes[0] = b'c';
    bytes[1] = b'o';
    bytes[2] = b'r';
    bytes[3] = b'e';
    Fixed::new(bytes)
}

/// The outcome of a write.
fn outcome_of(moved: Moved) -> Result<(), Errno>
    ensures { result ≡ answer_to moved.error }
{
    match moved.error {
        None => Ok(()),
        Some(e) => Err(e),
    }
}

/// Writes the per-process area at the front of a file.
fn write_area(nodes: &mut Nodes, ino: u16, u: &UArea, now: u32) -> Result<(), Errno>
    requires referenced { 0 < slice_index nodes.old.references ino }
    ensures answer { result ≡ (entry_written (inodes_of nodes.old) ino 0 (area_bytes u.now) now).answer }
    ensures inodes { inodes_of nodes.new ≡ (entry_written (inodes_of nodes.old) ino 0 (area_bytes u.now) now).inodes }
    ensures kept { SameReferences nodes.old nodes.new }
{
    nodes.see();
    let mut bytes = [0; AREA_SIZE];
    u.store(&mut bytes);
    outcome_of(nodes.write_kernel(ino, 0, &bytes, now))
}

/// Writes bytes of a memory, fewer than 65,536 from an address on, into a file, from a place on.
fn write_part<S: Space>(
    nodes: &mut Nodes,
    ino: u16,
    offset: u32,
    space: &S,
    at: u16,
    count: u16,
    now: u32,
) -> Result<(), Errno>
    requires referenced { 0 < slice_index nodes.old.references ino }
    ensures written { (node : Node) → node_numbered nodes.old.store ino ≡ Some node → WritesEntry nodes.old.store ino
        (write_file (get_from (S.image space.now) at) node (room_at nodes.old.store ino) (tt {0}) offset count now)
        nodes.new.store result }
    ensures references { nodes.new.references ≡ nodes.old.references }
    ensures there { node_numbered nodes.old.store ino ≡ Some (node_in nodes.old.store ino) }
    ensures kept { SameReferences nodes.old nodes.new }
{
    nodes.see();
    outcome_of(nodes.write_at(ino, offset, space, at, count, now))
}

/// Writes bytes of a memory, so many from an address on, into a file, from a place on. A write takes fewer than 65,536 bytes, so
/// they go in two, which meet at a block's end.
fn write_bytes<S: Space>(
    nodes: &mut Nodes,
    ino: u16,
    offset: u32,
    space: &S,
    at: u16,
    count: u32,
    now: u32,
) -> Result<(), Errno>
    requires referenced { 0 < slice_index nodes.old.references ino }
    requires few { count ≤ SEGMENTS }
    requires near { offset ≤ 2 * SEGMENTS }
    ensures written { (bytes : List ℕ) → load_bytes (S.image space.now) at count ≡ Some bytes
        → (result ≡ (entry_written (inodes_of nodes.old) ino offset bytes now).answer)
        × (inodes_of nodes.new ≡ (entry_written (inodes_of nodes.old) ino offset bytes now).inodes) }
    ensures kept { SameReferences nodes.old nodes.new }
{
    let first = count.min(HALF - offset % BLOCK);
    write_part(nodes, ino, offset, space, at, first as u16, now)?;
    let second = count - first;
    let rest = at.wrapping_add(first as u16);
    write_part(nodes, ino, offset + first, space, rest, second as u16, now)
}

/// The address at which the data begin.
fn data_at(u: &UArea) -> u16
    ensures { result ≡ data_base (CLICK * u.now.text_size) % SEGMENTS }
{
    let base = (u32::from(u.text_size) + 127) / 128 * SEGMENT;
    (base % SEGMENTS) as u16
}

/// The address at which the stack begins.
fn stack_at(u: &UArea) -> u16
    requires { CLICK * u.now.stack_size ≤ SEGMENTS }
    ensures { result ≡ (SEGMENTS - CLICK * u.now.stack_size) % SEGMENTS }
{
    let top = SEGMENTS - CLICK * u32::from(u.stack_size);
    (top % SEGMENTS) as u16
}

/// Writes the data behind the per-process area.
fn write_data<S: Space>(
    nodes: &mut Nodes,
    ino: u16,
    u: &UArea,
    space: &S,
    now: u32,
) -> Result<(), Errno>
    requires referenced { 0 < slice_index nodes.old.references ino }
    requires text { length (S.image space.now).text ≡ CLICK * u.now.text_size }
    requires data { length (S.image space.now).data ≡ CLICK * u.now.data_size }
    ensures answer { result ≡ (entry_written (inodes_of nodes.old) ino AREA_SIZE (S.image space.now).data now).answer }
    ensures inodes { inodes_of nodes.new
        ≡ (entry_written (inodes_of nodes.old) ino AREA_SIZE (S.image space.now).data now).inodes }
    ensures kept { SameReferences nodes.old nodes.new }
{
    let data = CLICK * u32::from(u.data_size);
    write_bytes(nodes, ino, AREA_SIZE as u32, space, data_at(u), data, now)
}

/// Writes the stack behind the data.
fn write_stack<S: Space>(
    nodes: &mut Nodes,
    ino: u16,
    u: &UArea,
    space: &S,
    now: u32,
) -> Result<(), Errno>
    requires referenced { 0 < slice_index nodes.old.references ino }
    requires data { length (S.image space.now).data ≡ CLICK * u.now.data_size }
    requires stack { length (S.image space.now).stack ≡ CLICK * u.now.stack_size }
    ensures answer { result ≡ (entry_written (inodes_of nodes.old) ino (AREA_SIZE + length (S.image space.now).data)
        (S.image space.now).stack now).answer }
    ensures inodes { inodes_of nodes.new
        ≡ (entry_written (inodes_of nodes.old) ino (AREA_SIZE + length (S.image space.now).data)
        (S.image space.now).stack now).inodes }
    ensures kept { SameReferences nodes.old nodes.new }
{
    let data = CLICK * u32::from(u.data_size);
    let stack = CLICK * u32::from(u.stack_size);
    write_bytes(
        nodes,
        ino,
        AREA_SIZE as u32 + data,
        space,
        stack_at(u),
        stack,
        now,
    )
}

/// Writes the per-process area, the data and the stack into a file: each where what stands before it was written whole.
fn write_parts<S: Space>(
    nodes: &mut Nodes,
    ino: u16,
    u: &UArea,
    space: &S,
    now: u32,
) -> Result<(), Errno>
    requires referenced { 0 < slice_index nodes.old.references ino }
    requires text { length (S.image space.now).text ≡ CLICK * u.now.text_size }
    requires data { length (S.image space.now).data ≡ CLICK * u.now.data_size }
    requires stack { length (S.image space.now).stack ≡ CLICK * u.now.stack_size }
    ensures did { (h : Handed) → h.inodes ≡ inodes_of nodes.old → h.u ≡ u.now → h.image ≡ S.image space.now
        → writes_parts now h ino ≡ did_of (with_inodes h (inodes_of nodes.new)) result }
    ensures kept { SameReferences nodes.old nodes.new }
{
    write_area(nodes, ino, u, now)?;
    write_data(nodes, ino, u, space, now)?;
    write_stack(nodes, ino, u, space, now)
}

/// Whether the file of an inode is plain.
///
/// # Errors
///
/// `EACCES`: it isn't.
fn test_plain(nodes: &Nodes, ino: u16) -> Result<(), Errno>
    requires { 0 < slice_index nodes.now.references ino }
    ensures { result ≡ must EACCES (is_plain (node_in nodes.now.store ino).mode) }
{
    if file_type(inode_of(nodes, ino).mode) != 0 {
        return Err(Errno::EACCES);
    }
    Ok(())
}

/// Writes over a file that is there, which gives its blocks back first.
///
/// # Errors
///
/// `EACCES`, `ETXTBSY`: the file isn't plain, or the user may not write it. `ENOSPC`: it isn't written whole.
fn write_over<S: Space>(
    f: &mut Files,
    u: &UArea,
    ino: u16,
    space: &S,
    now: u32,
) -> Result<(), Errno>
    requires referenced { 0 < slice_index f.old.tree.nodes.references ino }
    requires text { length (S.image space.now).text ≡ CLICK * u.now.text_size }
    requires data { length (S.image space.now).data ≡ CLICK * u.now.data_size }
    requires stack { length (S.image space.now).stack ≡ CLICK * u.now.stack_size }
    ensures did { (row : Row) → writes_over now (handed f.old u.now row (S.image space.now)) ino
        ≡ did_of (handed f.new u.now row (S.image space.now)) result }
    ensures kept { SameReferences f.old.tree.nodes f.new.tree.nodes }
    ensures table { f.new.table ≡ f.old.table }
    ensures mounts { f.new.tree.mounts ≡ f.old.tree.mounts }
{
    f.tree.nodes.see();
    test_plain(&f.tree.nodes, ino)?;
    f.tree.access(ino, user_of(u), Want::Write)?;
    truncate(&mut f.tree.nodes, ino, now);
    write_parts(&mut f.tree.nodes, ino, u, space, now)
}

/// Enters a new file, and writes it.
fn enter_core<S: Space>(
    f: &mut Files,
    u: &UArea,
    room: Room,
    ino: u16,
    space: &S,
    now: u32,
) -> Result<(), Errno>
    requires entry { HasEntry f.old.tree.nodes room.dir room.offset }
    requires disk { (split_of f.old.tree.mounts ino).0 ≡ (split_of f.old.tree.mounts room.dir).0 }
    requires referenced { 0 < slice_index f.old.tree.nodes.references ino }
    requires text { length (S.image space.now).text ≡ CLICK * u.now.text_size }
    requires data { length (S.image space.now).data ≡ CLICK * u.now.data_size }
    requires stack { length (S.image space.now).stack ≡ CLICK * u.now.stack_size }
    ensures did { (row : Row) → enters_new (handed f.old u.now row (S.image space.now)) room.dir room.offset room.name ino now
        (writes_parts now) ≡ did_of (handed f.new u.now row (S.image space.now)) result }
    ensures kept { SameReferences f.old.tree.nodes f.new.tree.nodes }
    ensures table { f.new.table ≡ f.old.table }
    ensures mounts { f.new.tree.mounts ≡ f.old.tree.mounts }
{
    enter_new(f, u, room, ino, now)?;
    write_parts(&mut f.tree.nodes, ino, u, space, now)
}

/// Makes a file in a directory, and writes it.
fn write_new<S: Space>(
    f: &mut Files,
    u: &UArea,
    room: Room,
    space: &S,
    now: u32,
) -> Result<(), Errno>
    requires entry { HasEntry f.old.tree.nodes room.dir room.offset }
    requires mounts { AreMounts f.old.tree.mounts f.old.tree.nodes.store }
    requires text { length (S.image space.now).text ≡ CLICK * u.now.text_size }
    requires data { length (S.image space.now).data ≡ CLICK * u.now.data_size }
    requires stack { length (S.image space.now).stack ≡ CLICK * u.now.stack_size }
    ensures did { (row : Row)
        → unnamed (writes_new now (handed f.old u.now row (S.image space.now)) room.dir room.offset room.name)
        ≡ did_of (handed f.new u.now row (S.image space.now)) result }
    ensures kept { SameReferences f.old.tree.nodes f.new.tree.nodes }
    ensures table { f.new.table ≡ f.old.table }
    ensures mounts { f.new.tree.mounts ≡ f.old.tree.mounts }
{
    f.tree.nodes.see();
    let dev = disk_of(f, room.dir);
    let ino = make_inode(&mut f.tree.nodes, dev, MODE, user_of(u), now)?;
    let result = enter_core(f, u, room, ino, space, now);
    let_go(&mut f.tree.nodes, ino, now);
    result
}

/// Writes the file of the name `core`, whether it is there or not.
fn write_named<S: Space>(f: &mut Files, u: &UArea, space: &S, now: u32) -> Result<(), Errno>
    requires directory { 0 < slice_index f.old.tree.nodes.references u.now.dir }
    requires few { (i : ℕ) → slice_index f.old.tree.nodes.references i ≤ 65530 }
    requires mounts { AreMounts f.old.tree.mounts f.old.tree.nodes.store }
    requires text { length (S.image space.now).text ≡ CLICK * u.now.text_size }
    requires data { length (S.image space.now).data ≡ CLICK * u.now.data_size }
    requires stack { length (S.image space.now).stack ≡ CLICK * u.now.stack_size }
    ensures did { (row : Row) → unnamed (writes_named now (handed f.old u.now row (S.image space.now)))
        ≡ did_of (handed f.new u.now row (S.image space.now)) result }
    ensures kept { SameReferences f.old.tree.nodes f.new.tree.nodes }
    ensures table { f.new.table ≡ f.old.table }
    ensures mounts { f.new.tree.mounts ≡ f.old.tree.mounts }
{
    match find_to_make(&mut f.tree, u, &core_name(), 0)? {
        Made::Found(ino) => {
            let result = write_over(f, u, ino, space, now);
            let_go(&mut f.tree.nodes, ino, now);
            result
        }
        Made::Room { dir, offset, name } => {
            let room = Room { dir, offset, name };
            let result = write_new(f, u, room, space, now);
            let_go(&mut f.tree.nodes, dir, now);
            result
        }
    }
}

/// Writes the image of a process, its per-process area, its data and its stack, to the file `core` in its directory, and says
/// whether the whole of it was written. Where the effective user isn't the real one nothing is written, and so where the file
/// is there and isn't plain or the user may not write it. The area has the sizes of the image. Where all that it has to do with
/// is on one disk, it leaves the other one alone.
pub fn write_core<S: Space>(f: &mut Files, u: &UArea, space: &S, now: u32) -> bool
    requires sound { (row : Row) → IsSound (handed f.old u.now row (S.image space.now)) }
    requires text { length (S.image space.now).text ≡ CLICK * u.now.text_size }
    requires data { length (S.image space.now).data ≡ CLICK * u.now.data_size }
    requires stack { length (S.image space.now).stack ≡ CLICK * u.now.stack_size }
    ensures whole { (row : Row) → result ≡ is_written (core_file (handed f.old u.now row (S.image space.now)) now).answer }
    ensures state { (row : Row) → handed f.new u.now row (S.image space.now)
        ≡ (core_file (handed f.old u.now row (S.image space.now)) now).state }
    ensures apart { (row : Row) → let h = handed f.old u.now row (S.image space.now) in
        LeavesOther h (record (core_file h now) { state = handed f.new u.now row (S.image space.now) }) }
    ensures kept { (row : Row)
        → IsKept (handed f.old u.now row (S.image space.now)) (handed f.new u.now row (S.image space.now)) }
    ensures blocks { SameRest f.old.tree.nodes f.new.tree.nodes }
{
    u.uid == u.ruid && write_named(f, u, space, now).is_ok()
}
