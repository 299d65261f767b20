//! Texts that are shared are marked: xalloc and xfree in Lions' Commentary, `text.c`.
ghost use Rattle.std.specs.Prelude.{◌≡◌, ◌<◌, ◌≤◌, ℕ, true, false, slice_index};
ghost use Rattle.fs_nodes.specs.Keys.{OnItsDisk};
ghost use Rattle.fs_nodes.specs.FileSystem.{SameRest};
ghost use Rattle.fs_tree.specs.Finding.{inodes_of, with_reference, put_back};
ghost use Rattle.fs_tree.specs.Marks.{is_marked, with_mark, without_mark};

use crate::references::{let_go, refer_again};
use crate::tree::Tree;

/// While a process runs a program whose text is shared, its file is marked, and cannot be written.
impl Tree {
    /// Marks an inode whose text is shared from now on, and refers to it once more.
    pub fn mark_text(&mut self, ino: u16)
        requires referenced { 0 < slice_index self.old.nodes.references ino }
        requires few { (i : ℕ) → slice_index self.old.nodes.references i ≤ 65530 }
        requires unmarked { is_marked self.old.marks ino ≡ false }
        ensures marks { self.new.marks ≡ with_mark self.old.marks ino }
        ensures mounts { self.new.mounts ≡ self.old.mounts }
        ensures inodes { inodes_of self.new.nodes ≡ with_reference (inodes_of self.old.nodes) ino }
        ensures blocks { self.new.nodes.blocks ≡ self.old.nodes.blocks }
    {
        self.marks.add(ino);
        refer_again(&mut self.nodes, ino);
    }

    /// Takes the mark of an inode away, whose text is shared no longer, and gives the reference back that came with it. The
    /// time is the present one.
    pub fn unmark_text(&mut self, ino: u16, time: u32)
        requires marked { is_marked self.old.marks ino ≡ true }
        requires referenced { 0 < slice_index self.old.nodes.references ino }
        ensures marks { self.new.marks ≡ without_mark self.old.marks ino }
        ensures mounts { self.new.mounts ≡ self.old.mounts }
        ensures inodes { inodes_of self.new.nodes ≡ put_back (inodes_of self.old.nodes) ino }
        ensures other { OnItsDisk self.old.nodes.store self.new.nodes.store ino }
        ensures rest { SameRest self.old.nodes self.new.nodes }
    {
        self.marks.remove(ino);
        let_go(&mut self.nodes, ino, time);
    }
}
