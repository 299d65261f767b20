//! Entries of a directory are written: wdir in Lions' Commentary, `iget.c`, and unlink in `sys4.c`.
ghost use Rattle.std.specs.Prelude.{◌≡◌, ◌%◌, ◌<◌, ◌≤◌, ℕ, true, [], ◌∷◌, Some, slice_index};
ghost use Rattle.fs_codec.specs.Bytes.{entry_bytes};
ghost use Rattle.fs_codec.specs.Modes.{is_directory};
ghost use Rattle.mount_tab.specs.Mounted.{split_of};
ghost use Rattle.fs_codec.specs.Store.{Node};
ghost use Rattle.fs_nodes.specs.Keys.{OnItsDisk, node_numbered};
ghost use Rattle.fs_nodes.specs.FileSystem.{SameRest};
ghost use Rattle.fs_tree.specs.Entries.{written, answer_to, WritesEntry};

use crate::tree::Tree;
use fs_codec::{DirEntry, write_entry};
use fs_nodes::Moved;
use v6_base::Errno;

/// Sees that bytes are below 256.
fn see_bytes(bytes: &[u8])
    ensures { (k : ℕ) → slice_index bytes.now k < 256 }
{
    let _ = bytes;
}

/// The bytes of an entry.
fn spelled(ino: u16, name: [u8; 14]) -> [u8; 16]
    ensures { result ≡ entry_bytes (record { ino = ino; name = name }) }
{
    let mut bytes = [0; 16];
    write_entry(&DirEntry { ino, name }, &mut bytes);
    see_bytes(&bytes);
    bytes
}

/// The answer to a write.
fn answer(moved: Moved) -> Result<(), Errno>
    ensures { result ≡ answer_to moved.error }
{
    match moved.error {
        None => Ok(()),
        Some(e) => Err(e),
    }
}

/// Both calls are for a directory that is referred to, and for a byte of it where an entry begins. They write as `write_kernel`
/// of `Nodes` does, which sets both times, and on the directory's disk alone.
impl Tree {
    /// Enters an inode of a directory's own disk under a name, from byte `offset` of the directory on. The entry has its
    /// number there.
    ///
    /// # Errors
    ///
    /// `EFBIG`: the directory would grow past 65,520 bytes. `ENOSPC`: no block is free for the entry.
    pub fn enter(
        &mut self,
        dir: u16,
        offset: u32,
        name: [u8; 14],
        ino: u16,
        time: u32,
    ) -> Result<(), Errno>
        requires referenced { 0 < slice_index self.old.nodes.references dir }
        requires directory { (node : Node) → node_numbered self.old.nodes.store dir ≡ Some node
            → is_directory node.mode ≡ true }
        requires begins { offset % 16 ≡ 0 }
        requires small { offset ≤ 65520 }
        requires disk { (split_of self.old.mounts ino).0 ≡ (split_of self.old.mounts dir).0 }
        ensures entry { (node : Node) → node_numbered self.old.nodes.store dir ≡ Some node
            → WritesEntry self.old.nodes.store dir
            (written self.old.nodes.store dir node offset
            (entry_bytes (record { ino = (split_of self.old.mounts ino).1; name = name })) time)
            self.new.nodes.store result }
        ensures other { OnItsDisk self.old.nodes.store self.new.nodes.store dir }
        ensures references { self.new.nodes.references ≡ self.old.nodes.references }
        ensures marks { self.new.marks ≡ self.old.marks }
        ensures mounts { self.new.mounts ≡ self.old.mounts }
        ensures rest { SameRest self.old.nodes self.new.nodes }
    {
        self.nodes.see();
        let bytes = spelled(self.mounts.split(ino).1, name);
        answer(self.nodes.write_kernel(dir, offset, &bytes, time))
    }

    /// Removes the entry that begins at byte `offset` of a directory: its inode number becomes 0, and its name stays.
    ///
    /// # Errors
    ///
    /// `EFBIG`: the directory would grow past 65,520 bytes. `ENOSPC`: the entry is in a block that the directory does not have,
    /// and none is free. Neither comes for an entry that was found.
    pub fn remove(&mut self, dir: u16, offset: u32, time: u32) -> Result<(), Errno>
        requires referenced { 0 < slice_index self.old.nodes.references dir }
        requires directory { (node : Node) → node_numbered self.old.nodes.store dir ≡ Some node
            → is_directory node.mode ≡ true }
        requires begins { offset % 16 ≡ 0 }
        requires small { offset ≤ 65520 }
        ensures entry { (node : Node) → node_numbered self.old.nodes.store dir ≡ Some node
            → WritesEntry self.old.nodes.store dir
            (written self.old.nodes.store dir node offset (0 ∷ 0 ∷ []) time)
            self.new.nodes.store result }
        ensures other { OnItsDisk self.old.nodes.store self.new.nodes.store dir }
        ensures references { self.new.nodes.references ≡ self.old.nodes.references }
        ensures marks { self.new.marks ≡ self.old.marks }
        ensures mounts { self.new.mounts ≡ self.old.mounts }
        ensures rest { SameRest self.old.nodes self.new.nodes }
    {
        self.nodes.see();
        let bytes = [0; 2];
        answer(self.nodes.write_kernel(dir, offset, &bytes, time))
    }
}
