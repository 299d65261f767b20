//! The inodes of a disk that somebody refers to.
ghost use Rattle.std.specs.Prelude.{◌≡◌, ◌+◌, ◌<◌, ◌≤◌, slice_set, slice_index, replicate, None, IsSome, MatchResult, MatchOption, ◌⊎◌};
ghost use Rattle.v6_base.specs.declared.errno.Errno.{Errno};
ghost use Rattle.buf_cache.specs.Blocks.{block_at, WritesLate};
ghost use Rattle.fs_codec.specs.Faults.{disk_fault};
ghost use Rattle.fs_codec.specs.declared.layout.TheConstants.{DISK_BLOCKS};
ghost use Rattle.fs_laws.specs.Chain.{SameZone};
ghost use Rattle.fs_blocks.specs.State.{disk, IsVolume};
ghost use Rattle.fs_codec.specs.Store.{node_numbered};
ghost use Rattle.fs_nodes.specs.one_disk.FileSystem.{store_now, referenced, ShowsNode, SameFiles, IsFileSystem};

use crate::one_disk::inodes::{read_inode, see};
use crate::one_disk::table::{Referenced, find, peek_used, place, refer_again};
use arrayvec::ArrayVec;
use fs_blocks::Volume;
use fs_codec::DiskNode;
use std::marker::Model;
use v6_base::Errno;

/// The file system of one disk, on its volume, with the inodes that somebody refers to. Lions' Commentary, `iget.c`.
#[derive(Drop)]
pub struct DiskNodes {
    pub(crate) volume: Volume,
    pub(crate) table: ArrayVec<Referenced, 100>,
}

impl Model for DiskNodes {
    ghost use Rattle.fs_nodes.specs.one_disk.FileSystem.{FileSystem};
    ghost use Rattle.fs_nodes.specs.one_disk.Table.{files_of, IsHeld};

    ghost Value = { FileSystem };

    ghost view = { λ n. files_of n.volume n.table.items };

    ghost invariant = { λ n. IsHeld n.volume.state n.table.items };
}

/// Sees that the super-block on the disk has the sizes that the one in memory has.
pub(crate) fn see_sizes(volume: &Volume)
    ensures volume { IsVolume volume.now.state.blocks volume.now.state.head }
    ensures sizes { SameZone (block_at volume.now.state.blocks) (disk volume.now.state) }
{
    see(volume);
}

impl DiskNodes {
    /// The file system on a volume without a fault, to whose inodes nobody refers yet.
    pub fn new(volume: Volume) -> DiskNodes
        requires sound { disk_fault DISK_BLOCKS (disk volume.state) ≡ None }
        ensures store { result.store ≡ store_now volume.state }
        ensures none { result.references ≡ replicate (result.store.count + 1) 0 }
        ensures blocks { result.blocks ≡ volume.state.blocks }
        ensures stored { result.stored ≡ volume.stored }
    {
        see(&volume);
        see_sizes(&volume);
        DiskNodes {
            volume,
            table: ArrayVec::new(),
        }
    }

    /// Sees what holds of every file system, and costs nothing.
    pub fn see(&self)
        ensures { IsFileSystem self.now }
    {
        see(&self.volume);
        let _count = self.table.len();
    }

    /// How many inodes are referred to.
    pub fn held(&self) -> usize
        ensures count { result ≡ referenced self.now.references }
        ensures few { result ≤ 100 }
    {
        self.table.len()
    }

    /// How often an inode is referred to: 0 where there is none of this number.
    pub fn refs(&self, ino: u16) -> u16
        ensures count { result ≡ slice_index self.now.references ino }
        ensures form { IsFileSystem self.now }
    {
        self.see();
        match find(&self.table, ino) {
            Some(k) => self.table[k].references,
            None => 0,
        }
    }

    /// Refers to an inode that is used, once more.
    ///
    /// # Errors
    ///
    /// `ENFILE`: a hundred inodes are referred to, and this is none of them.
    pub fn take(&mut self, ino: u16) -> Result<(), Errno>
        requires node { IsSome (node_numbered self.old.store ino) }
        requires few { slice_index self.old.references ino < 65535 }
        ensures outcome { MatchResult result
            (λ u. ((0 < slice_index self.old.references ino) ⊎ (referenced self.old.references < 100))
            × SameFiles (record self.old {
              references = slice_set self.old.references ino (slice_index self.old.references ino + 1);
            }) self.new)
            (λ e. (e ≡ Errno.ENFILE) × (slice_index self.old.references ino ≡ 0)
            × (referenced self.old.references ≡ 100) × (self.new ≡ self.old)) }
        ensures stored { WritesLate self.old.stored self.old.blocks self.new.stored }
    {
        if let Some(k) = find(&self.table, ino) {
            refer_again(&mut self.table, k);
            return Ok(());
        }
        if self.table.is_full() {
            return Err(Errno::ENFILE);
        }
        let node = read_inode(&mut self.volume, ino);
        see_sizes(&self.volume);
        self.table.push(Referenced {
            ino,
            references: 1,
            node,
            is_changed: false,
        });
        Ok(())
    }

    /// An inode that is referred to.
    pub fn node(&self, ino: u16) -> &DiskNode
        requires referenced { 0 < slice_index self.now.references ino }
        ensures shown { ShowsNode (node_numbered self.now.store ino) result.now }
    {
        &self.table[place(&self.table, ino)].node
    }

    /// The inode of a number, to which nothing need refer: `None` where there is none of this number, or it is free.
    pub fn peek(&mut self, ino: u16) -> Option<DiskNode>
        ensures found { MatchOption result (node_numbered self.old.store ino ≡ None)
            (λ inode. ShowsNode (node_numbered self.old.store ino) inode) }
        ensures same { SameFiles self.old self.new }
        ensures stored { WritesLate self.old.stored self.old.blocks self.new.stored }
    {
        peek_used(&mut self.volume, &self.table, ino)
    }

    /// The bytes of block `n` on the disk. `update_all` writes a block there that has changed, and others may before.
    pub fn on_disk(&self, n: u16) -> &[u8; 512]
        requires { n < DISK_BLOCKS }
        ensures { result.now ≡ block_at self.now.stored n }
    {
        self.volume.on_disk(n)
    }
}
