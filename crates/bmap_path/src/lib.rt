//! Names of the blocks on the way to a block of a file: file system(V).
#![tactic(auto)]

ghost use Rattle.std.specs.Prelude.{◌≡◌, ◌≤◌, ◌++◌};
ghost use Rattle.arrayvec.specs.ArrayVec.{array_vec_len};
ghost use Rattle.bmap_path.specs.Path.{path_of, large_path};

use arrayvec::ArrayVec;

/// The blocks that a small file may have, by its eight addresses.
pub const SMALL_BLOCKS: u16 = 8;

/// The addresses in an indirect block.
pub const INDIRECT_BLOCKS: u16 = 256;

/// The first block that the double indirect block stands for: seven indirect blocks come before.
pub const DOUBLE_START: u16 = 1792;

/// What a block is to its file.
#[derive(Clone, Copy, Debug, PartialEq, Eq, Default)]
pub enum BlockName {
    /// The block of the file's bytes from 512 times this number on.
    Data(u16),
    /// The indirect block of the addresses of 256 blocks, from 256 times this number on.
    Ind(u16),
    /// The double indirect block: the addresses of the indirect blocks from number 7 on.
    #[default]
    Dbl,
}

/// The blocks that a file has where it has block `bn`, each after the block that has its address. A small file becomes large
/// on the way to block 8 or later: its eight addresses move into its first indirect block.
pub fn path(large: bool, bn: u16) -> ArrayVec<BlockName, 4>
    requires { bn ≤ 32767 }
    ensures { result.items ≡ path_of large bn }
{
    let mut names = ArrayVec::new();
    if !large && bn < SMALL_BLOCKS {
        names.push(BlockName::Data(bn));
        return names;
    }
    if !large && bn >= INDIRECT_BLOCKS {
        names.push(BlockName::Ind(0));
    }
    push_large(&mut names, bn);
    names
}

/// Adds the blocks that a large file has on the way to block `bn`.
fn push_large(names: &mut ArrayVec<BlockName, 4>, bn: u16)
    requires { array_vec_len names.old ≤ 1 }
    ensures { names.new.items ≡ names.old.items ++ large_path bn }
{
    if bn >= DOUBLE_START {
        names.push(BlockName::Dbl);
    }
    names.push(BlockName::Ind(bn / INDIRECT_BLOCKS));
    names.push(BlockName::Data(bn));
}
