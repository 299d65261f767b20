//! Calls that set fields of an inode: Lions' Commentary, `inode.h` and `sys4.c`.
ghost use Rattle.std.specs.Prelude.{◌≡◌, ◌≢◌, ◌<◌, true, Some, slice_index, bit_and};
ghost use Rattle.fs_codec.specs.Fields.{fields_of};
ghost use Rattle.fs_codec.specs.Modes.{file_type, is_large, is_device};
ghost use Rattle.fs_codec.specs.declared.modes.TheConstants.{IALLOC};
ghost use Rattle.fs_codec.specs.Store.{Node, node_numbered};
ghost use Rattle.fs_laws.specs.Numbers.{with_node};
ghost use Rattle.fs_laws.specs.Keys.{with_fields};
ghost use Rattle.fs_nodes.specs.one_disk.FileSystem.{store_now, SameRest};
ghost use Rattle.fs_nodes.specs.one_disk.Setting.{set_in, set_of, CanSet};
ghost use Rattle.fs_nodes.specs.one_disk.Table.{files_of, seen, IsHeld};

use crate::one_disk::nodes::DiskNodes;
use crate::one_disk::table::{Referenced, carry_inode, inode_of};
use arrayvec::ArrayVec;
use fs_blocks::Volume;
use fs_codec::DiskNode;

/// What a call sets of an inode, and the time of that, where it is kept.
#[derive(Clone, Copy)]
pub(crate) enum Setting {
    Mode { mode: u16, time: u32 },
    Owner { uid: u8, gid: u8, time: u32 },
    Links { nlink: u8, time: u32 },
    Device { device: u16 },
    /// The size of a pipe's file is 0 then.
    Empty,
}

/// Sets it in an inode.
fn set(node: &mut DiskNode, setting: Setting)
    ensures { fields_of node.new ≡ set_in setting (fields_of node.old) }
{
    match setting {
        Setting::Mode { mode, time } => {
            node.mode = mode;
            node.modtime = time;
        }
        Setting::Owner { uid, gid, time } => {
            node.uid = uid;
            node.gid = gid;
            node.modtime = time;
        }
        Setting::Links { nlink, time } => {
            node.nlink = nlink;
            node.modtime = time;
        }
        Setting::Device { device } => node.addr[0] = device,
        Setting::Empty => node.size = 0,
    }
}

/// Sets it in an inode that is referred to.
fn set_fields(volume: &Volume, table: &mut ArrayVec<Referenced, 100>, ino: u16, setting: Setting)
    requires held { IsHeld volume.now.state table.old.items }
    requires referenced { 0 < slice_index (files_of volume.now table.old.items).references ino }
    requires can { (node : Node) → node_numbered (store_now (seen volume.now.state table.old.items)) ino ≡ Some node
        → CanSet setting node }
    ensures held { IsHeld volume.now.state table.new.items }
    ensures references { (files_of volume.now table.new.items).references ≡ (files_of volume.now table.old.items).references }
    ensures store { (node : Node) → node_numbered (store_now (seen volume.now.state table.old.items)) ino ≡ Some node
        → store_now (seen volume.now.state table.new.items)
        ≡ with_node (store_now (seen volume.now.state table.old.items)) ino (set_of setting node)
        (store_now (seen volume.now.state table.old.items)).room }
{
    let mut node = inode_of(volume, table, ino);
    set(&mut node, setting);
    carry_inode(volume, table, ino, &node);
}

/// Each of these calls is for an inode that is referred to. A time is that of the change.
impl DiskNodes {
    /// Sets the mode of an inode, of which the type and the flag of large files stay as they are.
    pub fn set_mode(&mut self, ino: u16, mode: u16, time: u32)
        requires referenced { 0 < slice_index self.old.references ino }
        requires used { bit_and mode IALLOC ≢ 0 }
        requires kind { (node : Node) → node_numbered self.old.store ino ≡ Some node
            → (file_type mode ≡ file_type node.mode) × (is_large mode ≡ is_large node.mode) }
        ensures store { (node : Node) → node_numbered self.old.store ino ≡ Some node
            → self.new.store
            ≡ with_fields self.old.store ino (record node { mode = mode; modtime = time }) }
        ensures references { self.new.references ≡ self.old.references }
        ensures blocks { self.new.blocks ≡ self.old.blocks }
        ensures stored { self.new.stored ≡ self.old.stored }
        ensures rest { SameRest self.old self.new }
    {
        let setting = Setting::Mode { mode, time };
        set_fields(&self.volume, &mut self.table, ino, setting);
    }

    /// Sets the owner and the group.
    pub fn set_owner(&mut self, ino: u16, uid: u8, gid: u8, time: u32)
        requires referenced { 0 < slice_index self.old.references ino }
        ensures store { (node : Node) → node_numbered self.old.store ino ≡ Some node
            → self.new.store
            ≡ with_fields self.old.store ino (record node { uid = uid; gid = gid; modtime = time }) }
        ensures references { self.new.references ≡ self.old.references }
        ensures blocks { self.new.blocks ≡ self.old.blocks }
        ensures stored { self.new.stored ≡ self.old.stored }
        ensures rest { SameRest self.old self.new }
    {
        let setting = Setting::Owner { uid, gid, time };
        set_fields(&self.volume, &mut self.table, ino, setting);
    }

    /// Sets the number of links.
    pub fn set_links(&mut self, ino: u16, nlink: u8, time: u32)
        requires referenced { 0 < slice_index self.old.references ino }
        ensures store { (node : Node) → node_numbered self.old.store ino ≡ Some node
            → self.new.store
            ≡ with_fields self.old.store ino (record node { nlink = nlink; modtime = time }) }
        ensures references { self.new.references ≡ self.old.references }
        ensures blocks { self.new.blocks ≡ self.old.blocks }
        ensures stored { self.new.stored ≡ self.old.stored }
        ensures rest { SameRest self.old self.new }
    {
        let setting = Setting::Links { nlink, time };
        set_fields(&self.volume, &mut self.table, ino, setting);
    }

    /// Sets the device of a device's inode, and no time.
    pub fn set_device(&mut self, ino: u16, device: u16)
        requires referenced { 0 < slice_index self.old.references ino }
        requires device { (node : Node) → node_numbered self.old.store ino ≡ Some node → is_device node.mode ≡ true }
        ensures store { (node : Node) → node_numbered self.old.store ino ≡ Some node
            → self.new.store
            ≡ with_fields self.old.store ino (record node { device = device }) }
        ensures references { self.new.references ≡ self.old.references }
        ensures blocks { self.new.blocks ≡ self.old.blocks }
        ensures stored { self.new.stored ≡ self.old.stored }
        ensures rest { SameRest self.old self.new }
    {
        let setting = Setting::Device { device };
        set_fields(&self.volume, &mut self.table, ino, setting);
    }

    /// Makes the size of a pipe's file 0, and leaves its blocks and its times.
    pub fn empty_pipe(&mut self, ino: u16)
        requires referenced { 0 < slice_index self.old.references ino }
        ensures store { (node : Node) → node_numbered self.old.store ino ≡ Some node
            → self.new.store
            ≡ with_fields self.old.store ino (record node { size = 0 }) }
        ensures references { self.new.references ≡ self.old.references }
        ensures blocks { self.new.blocks ≡ self.old.blocks }
        ensures stored { self.new.stored ≡ self.old.stored }
        ensures rest { SameRest self.old self.new }
    {
        set_fields(&self.volume, &mut self.table, ino, Setting::Empty);
    }
}
