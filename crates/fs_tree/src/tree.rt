//! The tree of names over a file system.
ghost use Rattle.std.specs.Prelude.{◌≡◌, ◌<◌, ◌≤◌, ℕ, true, false, if◌then◌else◌, Some, IsSome, IfOk, IfErr, MatchResult};
ghost use Rattle.std.specs.Prelude.{slice_index};
ghost use Rattle.fs_codec.specs.Store.{Node};
ghost use Rattle.v6_base.specs.Access.{then_do};
ghost use Rattle.fs_nodes.specs.Keys.{OnItsDisk, node_numbered};
ghost use Rattle.fs_tree.specs.Mounting.{AreMounts};
ghost use Rattle.fs_tree.specs.Alone.{StartsOnRoot, alone, table_alone};
ghost use Rattle.fs_tree.specs.Marks.{no_marks};
ghost use Rattle.fs_tree.specs.Path.{way, to_remove};
ghost use Rattle.fs_tree.specs.Permission.{access};
ghost use Rattle.fs_tree.specs.Finding.{find_in, make_in, remove_in, referring_both, can_refer, with_reference};
ghost use Rattle.fs_tree.specs.Finding.{put_back, inodes_of};
ghost use Rattle.fs_nodes.specs.FileSystem.{SameRest};

use crate::access::{grant, may};
use crate::made::Made;
use crate::marks::Marks;
use crate::name::NameBytes;
use crate::user::{User, Want};
use crate::walk::{found, see_start, to_make, to_remove, walk};
use fs_nodes::Nodes;
use mount_tab::Mounts;
use v6_base::{Errno, Space};

/// A file system whose files have names.
#[derive(Drop)]
pub struct Tree {
    pub nodes: Nodes,
    /// The inodes whose text is shared by processes.
    pub marks: Marks,
    /// Which inodes there are, and the directory that the second disk covers.
    pub mounts: Mounts,
}

/// Refers to an inode once more.
fn take(nodes: &mut Nodes, ino: u16) -> Result<(), Errno>
    requires node { IsSome (node_numbered nodes.old.store ino) }
    requires few { slice_index nodes.old.references ino < 65535 }
    ensures done { IfOk result (λ _. can_refer (inodes_of nodes.old) ino ≡ true) }
    ensures error { IfErr result (λ e. (can_refer (inodes_of nodes.old) ino ≡ false) × (e ≡ Errno.ENFILE)) }
    ensures inodes { inodes_of nodes.new ≡ (if can_refer (inodes_of nodes.old) ino
        then with_reference (inodes_of nodes.old) ino else inodes_of nodes.old) }
    ensures blocks { nodes.new.blocks ≡ nodes.old.blocks }
{
    nodes.take(ino)
}

/// Gives a reference to an inode back.
fn put(nodes: &mut Nodes, ino: u16)
    requires referenced { 0 < slice_index nodes.old.references ino }
    requires node { IsSome (node_numbered nodes.old.store ino) }
    ensures inodes { inodes_of nodes.new ≡ put_back (inodes_of nodes.old) ino }
    ensures rest { SameRest nodes.old nodes.new }
{
    nodes.put(ino, 0);
}

/// Refers to the directory of an entry and to its inode once more, or to none of them.
fn take_both(nodes: &mut Nodes, entry: (u16, u32, u16)) -> Result<(u16, u32, u16), Errno>
    requires dir { IsSome (node_numbered nodes.old.store entry.0) }
    requires node { IsSome (node_numbered nodes.old.store entry.2) }
    requires few { (i : ℕ) → slice_index nodes.old.references i ≤ 65530 }
    ensures answer { result ≡ (referring_both (inodes_of nodes.old) entry).answer }
    ensures inodes { inodes_of nodes.new ≡ (referring_both (inodes_of nodes.old) entry).inodes }
    ensures rest { SameRest nodes.old nodes.new }
{
    take(nodes, entry.0)?;
    if let Err(e) = take(nodes, entry.2) {
        put(nodes, entry.0);
        return Err(e);
    }
    Ok(entry)
}

/// A number as a word, where it is one.
fn word(n: u32) -> u16
    ensures { n ≤ 65535 → result ≡ n }
{
    if n <= 65535 { n as u16 } else { 65535 }
}

impl Tree {
    /// The tree of names of the file system of one disk, of which no text is shared yet. Its inodes' numbers are words.
    pub fn new(nodes: Nodes) -> Tree
        ensures nodes { result.nodes ≡ nodes }
        ensures none { result.marks ≡ no_marks }
        ensures mounts { nodes.store.root.count ≤ 65535
            → result.mounts ≡ record { first = nodes.store.root.count; second = 0; covered = None } }
    {
        let count = nodes.root_count();
        let first = word(count);
        let mounts = Mounts::new(first, 0);
        Tree {
            nodes,
            marks: Marks::new(),
            mounts,
        }
    }

    /// The tree of names of the file systems of two disks, of which no text is shared and nothing is covered yet.
    pub fn new2(nodes: Nodes, mounts: Mounts) -> Tree
        requires { AreMounts mounts nodes.store }
        ensures nodes { result.nodes ≡ nodes }
        ensures none { result.marks ≡ no_marks }
        ensures mounts { result.mounts ≡ mounts }
    {
        Tree {
            nodes,
            marks: Marks::new(),
            mounts,
        }
    }

    /// Whether a user may do this with the file of an inode: access in Lions' Commentary, `fio.c`. Nobody may write a file
    /// whose text is shared, user 0 no more than others. Else user 0 may do all, but needs one of the three bits to execute;
    /// another is tested against the bits of the first class that fits: the owner, the group, the others.
    ///
    /// # Errors
    ///
    /// `ETXTBSY`: the file is to be written, and its text is shared. Else `EACCES`: the user may not.
    pub fn access(&self, ino: u16, who: User, want: Want) -> Result<(), Errno>
        requires { 0 < slice_index self.now.nodes.references ino }
        ensures { (node : Node) → node_numbered self.now.nodes.store ino ≡ Some node
            → result ≡ access self.now.marks ino node who want }
    {
        let may = may(self.nodes.node(ino), who, want);
        grant(&self.marks, ino, want, may)
    }

    /// Finds the inode of a name, and refers to it once more: namei in Lions' Commentary, `nami.c`. `dir` is the directory
    /// where a name starts that does not begin with a slash. Nothing else changes.
    ///
    /// # Errors
    ///
    /// Of each component, in this order. `ENOTDIR`: it is looked for in what is no directory. `EACCES`: the user may not search
    /// the directory. `EFAULT`: a byte of it, or the one that ends it, cannot be read. `ENOENT`: there is no such name. At the
    /// end `ENFILE`: a hundred other inodes are referred to.
    pub fn find<S: Space>(
        &mut self,
        dir: u16,
        who: User,
        name: NameBytes<'_, S>,
    ) -> Result<u16, Errno>
        requires referenced { 0 < slice_index self.old.nodes.references dir }
        requires few { (i : ℕ) → slice_index self.old.nodes.references i ≤ 65530 }
        requires mounts { AreMounts self.old.mounts self.old.nodes.store }
        ensures answer { result ≡ (find_in (inodes_of self.old.nodes) self.old.mounts who dir name.entry).answer }
        ensures alone { StartsOnRoot self.old.nodes.store self.old.mounts dir name.entry
            → result ≡ (find_in (alone (inodes_of self.old.nodes)) (table_alone self.old.nodes.store) who dir name.entry).answer }
        ensures inodes { inodes_of self.new.nodes
            ≡ (find_in (inodes_of self.old.nodes) self.old.mounts who dir name.entry).inodes }
        ensures marks { self.new.marks ≡ self.old.marks }
        ensures mounts { self.new.mounts ≡ self.old.mounts }
        ensures blocks { self.new.nodes.blocks ≡ self.old.nodes.blocks }
    {
        see_start(&self.nodes, dir);
        let mut name = name;
        let way = walk(&mut self.nodes, &self.mounts, dir, who, &mut name)?;
        let ino = found(&mut self.nodes, &self.mounts, way)?;
        take(&mut self.nodes, ino)?;
        Ok(ino)
    }

    /// Finds the inode of a name, or the room for a new entry of this name in a directory that the user may write, and refers
    /// to the inode or to the directory once more. The room is the first empty entry, or the place just after the entries.
    /// Nothing else changes.
    ///
    /// # Errors
    ///
    /// Those of `find`, but for the last component: where it is not found, only those of `access` to write the directory.
    /// `ENOENT` too for a name without a component.
    pub fn find_to_make<S: Space>(
        &mut self,
        dir: u16,
        who: User,
        name: NameBytes<'_, S>,
    ) -> Result<Made, Errno>
        requires referenced { 0 < slice_index self.old.nodes.references dir }
        requires few { (i : ℕ) → slice_index self.old.nodes.references i ≤ 65530 }
        requires mounts { AreMounts self.old.mounts self.old.nodes.store }
        ensures answer { result
            ≡ (make_in (inodes_of self.old.nodes) self.old.mounts self.old.marks who dir name.entry).answer }
        ensures alone { StartsOnRoot self.old.nodes.store self.old.mounts dir name.entry
            → result ≡ (make_in (alone (inodes_of self.old.nodes)) (table_alone self.old.nodes.store)
            self.old.marks who dir name.entry).answer }
        ensures inodes { inodes_of self.new.nodes
            ≡ (make_in (inodes_of self.old.nodes) self.old.mounts self.old.marks who dir name.entry).inodes }
        ensures marks { self.new.marks ≡ self.old.marks }
        ensures mounts { self.new.mounts ≡ self.old.mounts }
        ensures blocks { self.new.nodes.blocks ≡ self.old.nodes.blocks }
    {
        see_start(&self.nodes, dir);
        let mut name = name;
        let way = walk(&mut self.nodes, &self.mounts, dir, who, &mut name)?;
        let made = to_make(&mut self.nodes, &self.mounts, &self.marks, way)?;
        take(&mut self.nodes, made.number())?;
        Ok(made)
    }

    /// Finds the entry of a name in a directory that the user may write, and refers to the directory and then to the inode of
    /// the entry once more. The answer is the directory, the entry's first byte there, and the inode.
    ///
    /// # Errors
    ///
    /// Those of `find`, but for the last component: where it is found, those of `access` to write the directory, and then
    /// `ENOENT`, where its inode is free or there is none of its number. `ENOENT` too for a name without a component.
    /// Where the inode cannot be referred to, the directory is no longer, as by `put` of `Nodes`.
    pub fn find_to_remove<S: Space>(
        &mut self,
        dir: u16,
        who: User,
        name: NameBytes<'_, S>,
    ) -> Result<(u16, u32, u16), Errno>
        requires referenced { 0 < slice_index self.old.nodes.references dir }
        requires few { (i : ℕ) → slice_index self.old.nodes.references i ≤ 65530 }
        requires mounts { AreMounts self.old.mounts self.old.nodes.store }
        ensures answer { result
            ≡ (remove_in (inodes_of self.old.nodes) self.old.mounts self.old.marks who dir name.entry).answer }
        ensures alone { StartsOnRoot self.old.nodes.store self.old.mounts dir name.entry
            → result ≡ (remove_in (alone (inodes_of self.old.nodes)) (table_alone self.old.nodes.store)
            self.old.marks who dir name.entry).answer }
        ensures inodes { inodes_of self.new.nodes
            ≡ (remove_in (inodes_of self.old.nodes) self.old.mounts self.old.marks who dir name.entry).inodes }
        ensures other { MatchResult (then_do (way self.old.nodes.store self.old.mounts who dir name.entry)
            (to_remove self.old.nodes.store self.old.mounts self.old.marks))
            (λ entry. OnItsDisk self.old.nodes.store self.new.nodes.store entry.0)
            (λ e. self.new.nodes.store ≡ self.old.nodes.store) }
        ensures marks { self.new.marks ≡ self.old.marks }
        ensures mounts { self.new.mounts ≡ self.old.mounts }
        ensures rest { SameRest self.old.nodes self.new.nodes }
    {
        see_start(&self.nodes, dir);
        let mut name = name;
        let way = walk(&mut self.nodes, &self.mounts, dir, who, &mut name)?;
        let entry = to_remove(&mut self.nodes, &self.mounts, &self.marks, way)?;
        take_both(&mut self.nodes, entry)
    }
}
