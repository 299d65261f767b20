//! What holds of the rows, the images and the texts of processes.
ghost use Rattle.image_keep.specs.Kept.{IsKept};
ghost use Rattle.image_keep.specs.SharedTexts.{AreLong, AreShared};
ghost use Rattle.proc_tab.specs.Processes.{AreProcesses};
ghost use Rattle.sys_procs.specs.Handed.{IsAlive};

use crate::procs::Procs;
use image_keep::Images;
use v6_base::Slot;

/// Sees what holds of the rows and the images, where there is a process.
pub(crate) fn see(p: &Procs, s: Slot)
    requires { IsAlive p.now s }
    ensures rows { AreProcesses p.now.rows }
    ensures images { IsKept p.now.images.kept }
{
    let _used = p.rows.in_use(s);
    let _place = p.images.place(s);
}

/// Sees what holds of the texts.
pub(crate) fn see_texts(images: &Images)
    ensures shared { AreShared images.now.kept }
    ensures long { AreLong images.now.kept }
{
    let _ = images.find_text(0);
}
