//! Numbers of inodes are drawn and given back: `ialloc` and `ifree` in Lions' Commentary, `alloc.c`.
ghost use Rattle.std.specs.Prelude.{◌≡◌, ◌≢◌, true, ◌<◌, ◌≤◌, ◌&&◌, not, min, [], length, take, drop, reverse, slice_index, MatchOption, MatchResult, IfSome, Some, None};
ghost use Rattle.buf_cache.specs.Blocks.{WritesLate};
ghost use Rattle.fs_codec.specs.Fields.{fields_of};
ghost use Rattle.fs_codec.specs.Disk.{inode, inode_count};
ghost use Rattle.fs_codec.specs.Store.{Node};
ghost use Rattle.fs_codec.specs.Stands.{node_of};
ghost use Rattle.fs_laws.specs.Numbers.{is_free_number, drawn, refill, draw, with_draw, without_node};
ghost use Rattle.fs_blocks.specs.State.{disk};
ghost use Rattle.fs_laws.specs.Rest.{SameAround};
ghost use Rattle.fs_nodes.specs.one_disk.FileSystem.{store_now, SameRest};
ghost use Rattle.fs_nodes.specs.one_disk.Table.{entries_of, files_of, seen, IsHeld};
ghost use Rattle.fs_nodes.specs.one_disk.Numbers.{refers_to, drawn_list, drawn_from, emptied, pushed, next_draw, ChangesList, ChangesInode, Clears, MakesNode, MakesNone};

use crate::one_disk::inodes::{read_inode, see, write_inode};
use crate::one_disk::nodes::{DiskNodes, see_sizes};
use crate::one_disk::table::{Referenced, find};
use arrayvec::ArrayVec;
use fs_blocks::Volume;
use fs_codec::{BLOCK_INODES, DiskNode, IALLOC, LIST_SIZE};
use v6_base::Errno;

/// How many inodes there are.
fn count_inodes(volume: &Volume) -> u32
    ensures count { result ≡ inode_count (disk volume.now.state) }
    ensures few { result ≤ 77920 }
{
    see(volume);
    u32::from(BLOCK_INODES) * u32::from(volume.head().i_size)
}

/// Whether a number is that of an inode that is not used, as its block has it.
fn is_free_there(volume: &mut Volume, ino: u16) -> bool
    ensures same { volume.new.state ≡ volume.old.state }
    ensures stored { WritesLate volume.old.stored volume.old.state.blocks volume.new.stored }
    ensures free { result ≡ is_free_number (store_now volume.old.state) ino }
{
    if ino == 0 {
        return false;
    }
    if u32::from(ino) > count_inodes(volume) {
        return false;
    }
    read_inode(volume, ino).mode == 0
}

/// Whether a number is that of an inode that is not used. One in memory is, so nothing refers to a free one.
fn is_free(volume: &mut Volume, table: &[Referenced], ino: u16) -> bool
    requires { IsHeld volume.old.state table.now }
    ensures same { volume.new.state ≡ volume.old.state }
    ensures stored { WritesLate volume.old.stored volume.old.state.blocks volume.new.stored }
    ensures free { result ≡ is_free_number (store_now (seen volume.old.state table.now)) ino }
    ensures spare { result
        ≡ (is_free_number (store_now (seen volume.old.state table.now)) ino && not (refers_to table.now ino)) }
{
    match find(table, ino) {
        Some(_) => false,
        None => is_free_there(volume, ino),
    }
}

/// The place of the last free number of a list.
fn last_free(volume: &mut Volume, table: &[Referenced], list: &[u16]) -> Option<usize>
    requires { IsHeld volume.old.state table.now }
    ensures same { volume.new.state ≡ volume.old.state }
    ensures stored { WritesLate volume.old.stored volume.old.state.blocks volume.new.stored }
    ensures last { MatchOption result
        (drawn (store_now (seen volume.old.state table.now)) (reverse list.now) ≡ record { number = None; spare = [] })
        (λ k. (k < length list.now) × (drawn (store_now (seen volume.old.state table.now)) (reverse list.now)
        ≡ record { number = Some (slice_index list.now k); spare = take k list.now })) }
{
    let mut left = list.len();
    while left > 0 {
        left -= 1;
        if is_free(volume, table, list[left]) {
            return Some(left);
        }
    }
    None
}

/// The last number that a word can be and that an inode has.
fn last_number(volume: &Volume) -> u16
    ensures { result ≡ min (inode_count (disk volume.now.state)) 65535 }
{
    let count = count_inodes(volume);
    if count > 65535 { 65535 } else { count as u16 }
}

/// The first hundred free numbers to which nothing refers.
fn refill(volume: &mut Volume, table: &[Referenced]) -> ArrayVec<u16, 100>
    requires { IsHeld volume.old.state table.now }
    ensures same { volume.new.state ≡ volume.old.state }
    ensures stored { WritesLate volume.old.stored volume.old.state.blocks volume.new.stored }
    ensures found { result.items ≡ refill (store_now (seen volume.old.state table.now)) (refers_to table.now) }
{
    let mut found = ArrayVec::new();
    for below in 0..last_number(volume) {
        if found.is_full() {
            return found;
        }
        if is_free(volume, table, below + 1) {
            found.push(below + 1);
        }
    }
    found
}

/// Makes these numbers the list of the super-block.
fn set_list(volume: &mut Volume, table: &[Referenced], list: &[u16])
    requires held { IsHeld volume.old.state table.now }
    requires few { length list.now ≤ 100 }
    ensures held { IsHeld volume.new.state table.now }
    ensures store { store_now (seen volume.new.state table.now)
        ≡ record (store_now (seen volume.old.state table.now)) { spare = list.now; mark = true } }
    ensures words { take (length list.now) volume.new.state.head.inode ≡ list.now }
    ensures behind { drop (length list.now) volume.new.state.head.inode
        ≡ drop (length list.now) volume.old.state.head.inode }
    ensures rest { ChangesList (seen volume.old.state table.now) (seen volume.new.state table.now) }
    ensures blocks { volume.new.state.blocks ≡ volume.old.state.blocks }
    ensures stored { volume.new.stored ≡ volume.old.stored }
{
    see(volume);
    volume.set_spare(list);
    see(volume);
    see_sizes(volume);
    // the contract alone speaks of the table
    let _ = table;
}

/// Draws the last free number of a list, and makes what comes before it the list of the super-block. The whole list is
/// written there first: the words after those that are left still have the number that was drawn.
fn draw_from(volume: &mut Volume, table: &[Referenced], list: &[u16]) -> Option<u16>
    requires held { IsHeld volume.old.state table.now }
    requires few { length list.now ≤ 100 }
    ensures held { IsHeld volume.new.state table.now }
    ensures number { result ≡ (drawn (store_now (seen volume.old.state table.now)) (reverse list.now)).number }
    ensures store { store_now (seen volume.new.state table.now)
        ≡ drawn_from (store_now (seen volume.old.state table.now)) list.now }
    ensures words { IfSome result (λ _. take (length list.now) volume.new.state.head.inode ≡ list.now) }
    ensures rest { ChangesList (seen volume.old.state table.now) (seen volume.new.state table.now) }
    ensures blocks { volume.new.state.blocks ≡ volume.old.state.blocks }
    ensures stored { WritesLate volume.old.stored volume.old.state.blocks volume.new.stored }
{
    match last_free(volume, table, list) {
        Some(place) => {
            set_list(volume, table, list);
            set_list(volume, table, &list[..place]);
            Some(list[place])
        }
        None => None,
    }
}

/// Empties the list of the super-block, whose numbers these are.
fn empty_list(volume: &mut Volume, table: &[Referenced], list: &[u16])
    requires held { IsHeld volume.old.state table.now }
    requires list { (store_now (seen volume.old.state table.now)).spare ≡ list.now }
    ensures held { IsHeld volume.new.state table.now }
    ensures store { store_now (seen volume.new.state table.now) ≡ emptied (store_now (seen volume.old.state table.now)) }
    ensures rest { ChangesList (seen volume.old.state table.now) (seen volume.new.state table.now) }
    ensures blocks { volume.new.state.blocks ≡ volume.old.state.blocks }
    ensures stored { volume.new.stored ≡ volume.old.stored }
{
    if !list.is_empty() {
        set_list(volume, table, &[]);
    }
}

/// Draws the number of an inode that is not used, where there is one: from the end of the super-block's list, which is filled
/// where nothing is left of it. A number of the list that is not free is dropped.
fn draw_number(volume: &mut Volume, table: &[Referenced]) -> Option<u16>
    requires { IsHeld volume.old.state table.now }
    ensures held { IsHeld volume.new.state table.now }
    ensures number { result ≡ (draw (store_now (seen volume.old.state table.now)) (refers_to table.now)).number }
    ensures store { store_now (seen volume.new.state table.now) ≡ with_draw (store_now (seen volume.old.state table.now))
        (draw (store_now (seen volume.old.state table.now)) (refers_to table.now)) }
    ensures words { IfSome result (λ _.
        let list = drawn_list (store_now (seen volume.old.state table.now)) (refers_to table.now)
        in take (length list) volume.new.state.head.inode ≡ list) }
    ensures rest { ChangesList (seen volume.old.state table.now) (seen volume.new.state table.now) }
    ensures blocks { volume.new.state.blocks ≡ volume.old.state.blocks }
    ensures stored { WritesLate volume.old.stored volume.old.state.blocks volume.new.stored }
{
    see(volume);
    let head = *volume.head();
    let list = &head.inode[..head.ninode as usize];
    if let Some(ino) = draw_from(volume, table, list) {
        return Some(ino);
    }
    empty_list(volume, table, list);
    let found = refill(volume, table);
    draw_from(volume, table, &found)
}

/// Puts the number of an inode that was freed at the end of the super-block's list, where there is room.
fn push_number(volume: &mut Volume, table: &[Referenced], ino: u16)
    requires { IsHeld volume.old.state table.now }
    ensures held { IsHeld volume.new.state table.now }
    ensures store { store_now (seen volume.new.state table.now) ≡ pushed (store_now (seen volume.old.state table.now)) ino }
    ensures rest { ChangesList (seen volume.old.state table.now) (seen volume.new.state table.now) }
    ensures blocks { volume.new.state.blocks ≡ volume.old.state.blocks }
    ensures stored { volume.new.stored ≡ volume.old.stored }
{
    see(volume);
    let head = *volume.head();
    if head.ninode < LIST_SIZE {
        let count = head.ninode as usize;
        let mut list = head.inode;
        list[count] = ino;
        set_list(volume, table, &list[..count + 1]);
    }
}

/// Gives the blocks of an inode that is in no table back and makes it free on the disk.
fn clear_inode(volume: &mut Volume, table: &[Referenced], ino: u16, mut node: DiskNode)
    requires held { IsHeld volume.old.state table.now }
    requires low { 1 < ino }
    requires high { ino ≤ inode_count (disk volume.old.state) }
    requires none { entries_of table.now ino ≡ 0 }
    requires node { fields_of node ≡ inode (disk (seen volume.old.state table.now)) ino }
    requires used { node.mode ≢ 0 }
    ensures { (file : Node) → node_of (disk (seen volume.old.state table.now)) (fields_of node) ≡ Some file
        → Clears volume.old.state volume.new.state table.now ino file }
{
    see(volume);
    volume.truncate(&mut node);
    see(volume);
    node.mode = 0;
    write_inode(volume, ino, &node);
    see(volume);
    // the contract alone speaks of the table
    let _ = table;
}

/// Frees an inode that is in no table: gives its blocks back, and puts its number into the list of the super-block, where
/// there is room.
pub(crate) fn free_inode(volume: &mut Volume, table: &[Referenced], ino: u16, node: DiskNode)
    requires held { IsHeld volume.old.state table.now }
    requires low { 1 < ino }
    requires high { ino ≤ inode_count (disk volume.old.state) }
    requires none { entries_of table.now ino ≡ 0 }
    requires node { fields_of node ≡ inode (disk (seen volume.old.state table.now)) ino }
    requires used { node.mode ≢ 0 }
    ensures held { IsHeld volume.new.state table.now }
    ensures store { (file : Node) → node_of (disk (seen volume.old.state table.now)) (fields_of node) ≡ Some file
        → store_now (seen volume.new.state table.now) ≡ without_node (store_now (seen volume.old.state table.now)) ino file }
    ensures others { ChangesInode (seen volume.old.state table.now) ino (seen volume.new.state table.now) }
{
    clear_inode(volume, table, ino, node);
    push_number(volume, table, ino);
}

/// Draws the number of an inode that is not used, where there is one.
fn draw_inode(volume: &mut Volume, table: &ArrayVec<Referenced, 100>) -> Option<u16>
    requires { IsHeld volume.old.state table.now.items }
    ensures held { IsHeld volume.new.state table.now.items }
    ensures number { result ≡ (next_draw (files_of volume.old table.now.items)).number }
    ensures store { (files_of volume.new table.now.items).store
        ≡ with_draw (files_of volume.old table.now.items).store (next_draw (files_of volume.old table.now.items)) }
    ensures references { (files_of volume.new table.now.items).references
        ≡ (files_of volume.old table.now.items).references }
    ensures blocks { volume.new.state.blocks ≡ volume.old.state.blocks }
    ensures stored { WritesLate volume.old.stored volume.old.state.blocks volume.new.stored }
{
    let number = draw_number(volume, table);
    see(volume);
    number
}

/// Makes a new inode in the table of a volume. Its block gets it late.
fn make_node(
    volume: &mut Volume,
    table: &mut ArrayVec<Referenced, 100>,
    mode: u16,
    uid: u8,
    gid: u8,
    time: u32,
) -> Result<u16, Errno>
    requires { IsHeld volume.old.state table.old.items }
    ensures held { IsHeld volume.new.state table.new.items }
    ensures outcome { MatchResult result
        (λ i. MakesNode (files_of volume.old table.old.items) mode uid gid time i (files_of volume.new table.new.items))
        (λ e. MakesNone (files_of volume.old table.old.items) e (files_of volume.new table.new.items)) }
    ensures stored { WritesLate volume.old.stored volume.old.state.blocks volume.new.stored }
    ensures rest { SameAround volume.old.state.blocks volume.new.state.blocks }
{
    let number = draw_number(volume, table);
    see(volume);
    let ino = match number {
        Some(ino) => ino,
        None => return Err(Errno::ENOSPC),
    };
    if table.is_full() {
        return Err(Errno::ENFILE);
    }
    let node = DiskNode {
        mode: mode | IALLOC,
        nlink: 0,
        uid,
        gid,
        size: 0,
        addr: [0; 8],
        actime: time,
        modtime: time,
    };
    table.push(Referenced {
        ino,
        references: 1,
        node,
        is_changed: true,
    });
    Ok(ino)
}

impl DiskNodes {
    /// How many inodes the disk has.
    pub fn count(&self) -> u32
        ensures { result ≡ self.now.store.count }
    {
        count_inodes(&self.volume)
    }

    /// Draws the number of an inode that is not used, where there is one. It stays out of the list of the super-block.
    pub fn draw(&mut self) -> Option<u16>
        ensures number { result ≡ (next_draw self.old).number }
        ensures store { self.new.store ≡ with_draw self.old.store (next_draw self.old) }
        ensures references { self.new.references ≡ self.old.references }
        ensures blocks { self.new.blocks ≡ self.old.blocks }
        ensures stored { WritesLate self.old.stored self.old.blocks self.new.stored }
    {
        draw_inode(&mut self.volume, &self.table)
    }

    /// Makes a new inode, to which the caller refers, with no link, no bytes and both times set: `ialloc` in Lions'
    /// Commentary, `alloc.c`. Its number is drawn from the list of the super-block, and IALLOC is added to its mode.
    ///
    /// # Errors
    ///
    /// `ENOSPC`: no inode is free. `ENFILE`: one is, but a hundred inodes are referred to. Its number stays out of the list.
    pub fn new_node(&mut self, mode: u16, uid: u8, gid: u8, time: u32) -> Result<u16, Errno>
        ensures outcome { MatchResult result (λ i. MakesNode self.old mode uid gid time i self.new)
            (λ e. MakesNone self.old e self.new) }
        ensures stored { WritesLate self.old.stored self.old.blocks self.new.stored }
        ensures rest { SameRest self.old self.new }
    {
        make_node(&mut self.volume, &mut self.table, mode, uid, gid, time)
    }
}
