//! Names that a call finds, enters and removes: `nami.c` and `iget.c` in Lions' Commentary.
ghost use Rattle.std.specs.Prelude.{◌≡◌, ◌≢◌, ◌<◌, ◌≤◌, ℕ, List, [], ◌∷◌, IsSome, IfOk, IfErr, slice_index};
ghost use Rattle.v6_base.specs.Image.{Image};
ghost use Rattle.proc_tab.specs.declared.row.Row.{Row};
ghost use Rattle.fs_codec.specs.Bytes.{entry_bytes};
ghost use Rattle.fs_nodes.specs.Keys.{counts};
ghost use Rattle.fs_tree.specs.Mounting.{AreMounts};
ghost use Rattle.fs_tree.specs.Name.{name_at};
ghost use Rattle.mount_tab.specs.Mounted.{split_of};
ghost use Rattle.fs_tree.specs.Finding.{inodes_of, make_in, remove_in, named_by_made};
ghost use Rattle.sys_files.specs.Handed.{Handed, handed, user_of, node_in};
ghost use Rattle.sys_files.specs.Did.{Did, unnamed, check, until_end};
ghost use Rattle.sys_files.specs.Making.{entry_written, new_in, makes_new, enters_new, links_in};
ghost use Rattle.sys_files.specs.Entering.{HasEntry, HasMade, IsOnDisk, SameReferences, OneReferenceMore, TwoReferencesMore};

use crate::files::Files;
use crate::inodes::inode_of;
use crate::naming::user_of;
use fs_nodes::Nodes;
use fs_tree::{Made, NameBytes, Tree, User, let_go};
use u_area::UArea;
use v6_base::{Errno, Space};

/// Finds the inode of a name that may be new, or the room for its entry, and refers to the inode or to the directory.
pub(crate) fn find_to_make<S: Space>(
    tree: &mut Tree,
    u: &UArea,
    space: &S,
    name: u16,
) -> Result<Made, Errno>
    requires directory { 0 < slice_index tree.old.nodes.references u.now.dir }
    requires few { (i : ℕ) → slice_index tree.old.nodes.references i ≤ 65530 }
    requires mounts { AreMounts tree.old.mounts tree.old.nodes.store }
    ensures answer { result
        ≡ (make_in (inodes_of tree.old.nodes) tree.old.mounts tree.old.marks (user_of u.now) u.now.dir
        (name_at (S.image space.now) name)).answer }
    ensures inodes { inodes_of tree.new.nodes
        ≡ (make_in (inodes_of tree.old.nodes) tree.old.mounts tree.old.marks (user_of u.now) u.now.dir
        (name_at (S.image space.now) name)).inodes }
    ensures marks { tree.new.marks ≡ tree.old.marks }
    ensures mounts { tree.new.mounts ≡ tree.old.mounts }
    ensures made { IfOk result (λ made. HasMade tree.new.nodes made) }
    ensures found { IfOk result (λ made. OneReferenceMore tree.old.nodes (named_by_made made) tree.new.nodes) }
    ensures same { tree.new.nodes.store ≡ tree.old.nodes.store }
    ensures none { IfErr result (λ e. SameReferences tree.old.nodes tree.new.nodes) }
{
    tree.nodes.see();
    tree.find_to_make(u.dir, user_of(u), NameBytes::at(space, name))
}

/// The room that a directory has for the entry of a new name, from byte `offset` of it on.
#[derive(Clone, Copy)]
pub(crate) struct Room {
    pub(crate) dir: u16,
    pub(crate) offset: u32,
    pub(crate) name: [u8; 14],
}

/// Finds the room for the entry of a new name, and refers to its directory.
///
/// # Errors
///
/// Those of `find_to_make`. `EEXIST`: there is an inode of this name.
pub(crate) fn find_room<S: Space>(
    f: &mut Files,
    u: &UArea,
    space: &S,
    name: u16,
    now: u32,
) -> Result<Room, Errno>
    requires directory { 0 < slice_index f.old.tree.nodes.references u.now.dir }
    requires few { (i : ℕ) → slice_index f.old.tree.nodes.references i ≤ 65530 }
    requires mounts { AreMounts f.old.tree.mounts f.old.tree.nodes.store }
    ensures did { (row : Row) (next : Handed → ℕ → ℕ → List ℕ → Did)
        → unnamed (makes_new (handed f.old u.now row (S.image space.now)) name next)
        ≡ unnamed (check (handed f.new u.now row (S.image space.now)) result
        (λ room. until_end room.dir
        (next (handed f.new u.now row (S.image space.now)) room.dir room.offset room.name))) }
    ensures room { IfOk result (λ room. HasEntry f.new.tree.nodes room.dir room.offset) }
    ensures found { IfOk result (λ room. OneReferenceMore f.old.tree.nodes room.dir f.new.tree.nodes) }
    ensures same { IfOk result (λ room. f.new.tree.nodes.store ≡ f.old.tree.nodes.store) }
    ensures none { IfErr result (λ e. SameReferences f.old.tree.nodes f.new.tree.nodes) }
    ensures table { f.new.table ≡ f.old.table }
    ensures pipes { f.new.pipes ≡ f.old.pipes }
    ensures mounts { f.new.tree.mounts ≡ f.old.tree.mounts }
{
    match find_to_make(&mut f.tree, u, space, name)? {
        Made::Found(ino) => {
            let_go(&mut f.tree.nodes, ino, now);
            Err(Errno::EEXIST)
        }
        Made::Room { dir, offset, name } => Ok(Room { dir, offset, name }),
    }
}

/// Finds the entry of a name that is to be removed, and refers to its directory and then to its inode. The answer is
/// the directory, the entry's first byte there, and the inode.
pub(crate) fn find_to_remove<S: Space>(
    tree: &mut Tree,
    u: &UArea,
    space: &S,
    name: u16,
) -> Result<(u16, u32, u16), Errno>
    requires directory { 0 < slice_index tree.old.nodes.references u.now.dir }
    requires few { (i : ℕ) → slice_index tree.old.nodes.references i ≤ 65530 }
    requires mounts { AreMounts tree.old.mounts tree.old.nodes.store }
    ensures answer { result
        ≡ (remove_in (inodes_of tree.old.nodes) tree.old.mounts tree.old.marks (user_of u.now) u.now.dir
        (name_at (S.image space.now) name)).answer }
    ensures inodes { inodes_of tree.new.nodes
        ≡ (remove_in (inodes_of tree.old.nodes) tree.old.mounts tree.old.marks (user_of u.now) u.now.dir
        (name_at (S.image space.now) name)).inodes }
    ensures marks { tree.new.marks ≡ tree.old.marks }
    ensures mounts { tree.new.mounts ≡ tree.old.mounts }
    ensures entry { IfOk result (λ entry. HasEntry tree.new.nodes entry.0 entry.1) }
    ensures found { IfOk result (λ entry. TwoReferencesMore tree.old.nodes entry.0 entry.2 tree.new.nodes) }
    ensures none { IfErr result (λ e. SameReferences tree.old.nodes tree.new.nodes) }
{
    tree.nodes.see();
    tree.find_to_remove(u.dir, user_of(u), NameBytes::at(space, name))
}

/// Makes an inode on a disk that is there, and refers to it.
pub(crate) fn make_inode(
    nodes: &mut Nodes,
    dev: u8,
    mode: u16,
    user: User,
    now: u32,
) -> Result<u16, Errno>
    requires device { dev < 2 }
    requires there { dev ≢ 0 → IsSome nodes.old.store.second }
    ensures answer { result ≡ (new_in (inodes_of nodes.old) dev mode user now).answer }
    ensures inodes { inodes_of nodes.new ≡ (new_in (inodes_of nodes.old) dev mode user now).inodes }
    ensures found { IfOk result (λ ino. OneReferenceMore nodes.old ino nodes.new) }
    ensures fresh { IfOk result (λ ino. slice_index nodes.old.references ino ≡ 0) }
    ensures disk { IfOk result (λ ino. IsOnDisk (counts nodes.old.store) dev ino) }
    ensures entries { (dir offset : ℕ) → HasEntry nodes.old dir offset → HasEntry nodes.new dir offset }
    ensures none { IfErr result (λ e. SameReferences nodes.old nodes.new) }
{
    nodes.see();
    nodes.new_node(dev, mode, user.uid, user.gid, now)
}

/// How many links an inode has.
pub(crate) fn links_of(nodes: &Nodes, ino: u16) -> u8
    requires referenced { 0 < slice_index nodes.now.references ino }
    ensures { result ≡ (node_in nodes.now.store ino).nlink }
{
    inode_of(nodes, ino).nlink
}

/// Sets the links of an inode.
pub(crate) fn set_links(nodes: &mut Nodes, ino: u16, nlink: u8, now: u32)
    requires referenced { 0 < slice_index nodes.old.references ino }
    ensures inodes { inodes_of nodes.new ≡ links_in (inodes_of nodes.old) ino nlink now }
    ensures kept { SameReferences nodes.old nodes.new }
{
    nodes.see();
    nodes.set_links(ino, nlink, now);
}

/// Enters a new inode, which has one link from then on.
pub(crate) fn enter_new(
    f: &mut Files,
    u: &UArea,
    room: Room,
    ino: u16,
    now: u32,
) -> Result<(), Errno>
    requires entry { HasEntry f.old.tree.nodes room.dir room.offset }
    requires disk { (split_of f.old.tree.mounts ino).0 ≡ (split_of f.old.tree.mounts room.dir).0 }
    requires referenced { 0 < slice_index f.old.tree.nodes.references ino }
    ensures did { (row : Row) (image : Image) (next : Handed → ℕ → Did)
        → enters_new (handed f.old u.now row image) room.dir room.offset room.name ino now next
        ≡ check (handed f.new u.now row image) result (λ done. next (handed f.new u.now row image) ino) }
    ensures kept { SameReferences f.old.tree.nodes f.new.tree.nodes }
    ensures table { f.new.table ≡ f.old.table }
    ensures pipes { f.new.pipes ≡ f.old.pipes }
    ensures mounts { f.new.tree.mounts ≡ f.old.tree.mounts }
{
    enter(&mut f.tree, room.dir, room.offset, room.name, ino, now)?;
    set_links(&mut f.tree.nodes, ino, 1, now);
    Ok(())
}

/// Enters an inode under a name in a directory of its own disk, from byte `offset` on.
pub(crate) fn enter(
    tree: &mut Tree,
    dir: u16,
    offset: u32,
    name: [u8; 14],
    ino: u16,
    now: u32,
) -> Result<(), Errno>
    requires entry { HasEntry tree.old.nodes dir offset }
    requires disk { (split_of tree.old.mounts ino).0 ≡ (split_of tree.old.mounts dir).0 }
    ensures answer { result ≡ (entry_written (inodes_of tree.old.nodes) dir offset
        (entry_bytes (record { ino = (split_of tree.old.mounts ino).1; name = name })) now).answer }
    ensures inodes { inodes_of tree.new.nodes ≡ (entry_written (inodes_of tree.old.nodes) dir offset
        (entry_bytes (record { ino = (split_of tree.old.mounts ino).1; name = name })) now).inodes }
    ensures marks { tree.new.marks ≡ tree.old.marks }
    ensures mounts { tree.new.mounts ≡ tree.old.mounts }
    ensures kept { SameReferences tree.old.nodes tree.new.nodes }
{
    tree.nodes.see();
    tree.enter(dir, offset, name, ino, now)
}

/// Empties the entry that begins at byte `offset` of a directory.
pub(crate) fn empty(tree: &mut Tree, dir: u16, offset: u32, now: u32) -> Result<(), Errno>
    requires { HasEntry tree.old.nodes dir offset }
    ensures answer { result ≡ (entry_written (inodes_of tree.old.nodes) dir offset (0 ∷ 0 ∷ []) now).answer }
    ensures inodes { inodes_of tree.new.nodes
        ≡ (entry_written (inodes_of tree.old.nodes) dir offset (0 ∷ 0 ∷ []) now).inodes }
    ensures marks { tree.new.marks ≡ tree.old.marks }
    ensures mounts { tree.new.mounts ≡ tree.old.mounts }
    ensures kept { SameReferences tree.old.nodes tree.new.nodes }
{
    tree.nodes.see();
    tree.remove(dir, offset, now)
}
