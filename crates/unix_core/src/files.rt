//! The inodes that the kernel and its process refer to.
ghost use Rattle.std.specs.Prelude.{◌≡◌, ℕ, ◌≤◌, ◌==◌, if◌then◌else◌, slice_index, length};
ghost use Rattle.std.specs.List.{All};
ghost use Rattle.lines_eight.specs.Lines.{HasRoom};
ghost use Rattle.image_keep.specs.Kept.{IsKept};
ghost use Rattle.proc_tab.specs.Processes.{AreProcesses};
ghost use Rattle.sys_procs.specs.Handed.{AreProcs};
ghost use Rattle.unix_core.specs.Parts.{IsCovered};

use crate::world::World;
use fs_nodes::Nodes;
use image_keep::Images;
use lines_eight::Lines;
use open_files::OpenTable;
use sys_procs::Procs;

/// The inode of the root.
pub(crate) const ROOT: u16 = 1;

/// Sees how many entries the table of open files has.
pub(crate) fn see_table(table: &OpenTable)
    ensures { length table.now ≡ 100 }
{
    let _used = table.in_use(0);
}

/// Sees that few bytes wait to go out on each terminal line.
pub(crate) fn see_lines(lines: &Lines)
    ensures { All HasRoom lines.now }
{
    let _count = lines.count();
}

/// Sees what holds of all images that are kept.
pub(crate) fn see_kept(images: &Images)
    ensures { IsKept images.now.kept }
{
    let _place = images.place(0);
}

/// Sees what holds of the table of processes and of all images that are kept.
pub(crate) fn see_procs(procs: &Procs)
    ensures rows { AreProcesses procs.now.rows }
    ensures images { IsKept procs.now.images.kept }
{
    let _used = procs.rows.in_use(0);
    see_kept(&procs.images);
}

/// Sees that core and the swap area keep what the world tells.
#[tactic(auto, using(crate::proofs::CoverLemmas::agree_covered))]
pub(crate) fn see_covered(world: &World)
    requires { AreProcs world.now.procs }
    ensures { IsCovered world.now }
{
    see_procs(&world.procs);
}

/// Sees how many numbers a process has for its files.
pub(crate) fn see_numbers(numbers: &[u8; 15])
    ensures { length numbers.now ≡ 15 }
{
    let _ = numbers;
}

/// Sees that the second argument of a call is a word of 16 bits.
pub(crate) fn see_count(args: &[u16; 4])
    ensures { slice_index args.now 1 ≤ 65535 }
{
    let _count = args[1];
}

/// Sees that the number of bytes of a call that waits is a word of 16 bits.
pub(crate) fn see_words(words: &[u16; 8])
    ensures { slice_index words.now 2 ≤ 65535 }
{
    let _count = words[2];
}

/// Takes inode 1 as the root and as the directory of process 1.
pub(crate) fn take_root(nodes: &mut Nodes)
    requires none { (ino : ℕ) → slice_index nodes.old.references ino ≡ 0 }
    ensures store { nodes.new.store ≡ nodes.old.store }
    ensures blocks { nodes.new.blocks ≡ nodes.old.blocks }
    ensures stored { nodes.old.stored ≡ nodes.old.blocks → nodes.new.stored ≡ nodes.old.blocks }
    ensures referred { (ino : ℕ) → slice_index nodes.new.references ino ≡ (if ino == 1 then 2 else 0) }
{
    nodes.see();
    let _ = nodes.take(ROOT);
    let _ = nodes.take(ROOT);
}
