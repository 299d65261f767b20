//! Calls on files: the parts that each is handed are lent to it, and put back. What it shows goes to the kernel's tape.
ghost use Rattle.std.specs.Prelude.{◌≡◌, ℕ, List, true, false};
ghost use Rattle.fs_nodes.specs.FileSystem.{SameRest};
ghost use Rattle.sys_files.specs.Handed.{Handed};
ghost use Rattle.sys_files.specs.Descriptors.{close_all};
ghost use Rattle.sys_files.specs.Moving.{resumes};
ghost use Rattle.sys_files.specs.Core.{core_file, is_written};
ghost use Rattle.image_keep.specs.Kept.{HasImage, HasSizes, area_of, image_of, with_area};
ghost use Rattle.image_keep.specs.Running.{IsFixed};
ghost use Rattle.abstract_unix.specs.Unix.{process_of};
ghost use Rattle.abstract_unix.specs.Calls.{handed_of, with_handed, file_row};
ghost use Rattle.u_area.specs.Pending.{is_on_files};
ghost use Rattle.abstract_unix.specs.Turn.{is_user};
ghost use Rattle.unix_core.specs.Parts.{unix_of, IsReady, IsReadyToShow};

use crate::files::{see_count, see_lines, see_numbers, see_table, see_words};
use crate::world::World;
use abstract_unix::{FileCall, do_file_call};
use image_keep::{Fixed, Images};
use sys_files::{close_all, resume_file, write_core};
use u_area::UArea;
use v6_base::{Answer, Slot};

/// Does a call on files by its row.
#[inline(always)]
pub(crate) fn do_on_files(
    world: &mut World,
    fixed: &Fixed,
    call: FileCall,
    args: [u16; 4],
) -> Answer
    requires fixed { IsFixed world.old.procs.images.kept fixed.now }
    requires ready { IsReady world.old fixed.now.slot }
    requires user { is_user (process_of (unix_of world.old) fixed.now.slot) ≡ true }
    ensures answer { result ≡ (file_row call
        (handed_of (unix_of world.old) (process_of (unix_of world.old) fixed.now.slot)) fixed.now.slot args world.old.procs.table.now).answer }
    ensures unix { unix_of world.new ≡ with_handed (unix_of world.old) fixed.now.slot (file_row call
        (handed_of (unix_of world.old) (process_of (unix_of world.old) fixed.now.slot)) fixed.now.slot args world.old.procs.table.now).state }
    ensures shown { IsReadyToShow world.old world.new fixed.now.slot (file_row call
        (handed_of (unix_of world.old) (process_of (unix_of world.old) fixed.now.slot)) fixed.now.slot args world.old.procs.table.now).items }
    ensures rest { SameRest world.old.files.tree.nodes world.new.files.tree.nodes }
    ensures slots { world.new.slots ≡ world.old.slots }
{
    see_count(&args);
    world.files.tree.nodes.see();
    see_table(&world.files.table);
    see_lines(&world.files.lines);
    world.tape.clear();
    let s = fixed.slot;
    let now = world.procs.table.now;
    let mut u = world.procs.images.area_at(fixed);
    let mut row = *world.procs.rows.row(s);
    let answer = {
        let mut space = world.procs.images.space_at(fixed);
        do_file_call(
            call,
            &mut world.files,
            s,
            &mut u,
            &mut row,
            &mut space,
            args,
            now,
            &mut world.tape,
        )
    };
    see_numbers(&u.files);
    put_back(&mut world.procs.images, s, &u, changes_area(call, answer));
    world.procs.rows.set_row(s, row);
    answer
}

/// Whether a call on files may have changed the u area of its process: one that sleeps has, and one that opens or closes
/// files or enters a directory may have.
#[inline]
fn changes_area(call: FileCall, answer: Answer) -> bool
    ensures { result ≡ false → (h : Handed) (slot : ℕ) (args : List ℕ) (now : ℕ)
        → (file_row call h slot args now).answer ≡ answer → (file_row call h slot args now).state.u ≡ h.u }
{
    match call {
        FileCall::Open
        | FileCall::Close
        | FileCall::Creat
        | FileCall::Chdir
        | FileCall::Dup
        | FileCall::Pipe => true,
        _ => matches!(answer, Answer::Sleep { .. }),
    }
}

/// Puts the u area of a process that has made a call back, where it may have changed.
#[inline(always)]
#[tactic(auto, using(crate::proofs::StillAreas::still_put))]
fn put_back(images: &mut Images, s: Slot, u: &UArea, changed: bool)
    requires image { HasImage images.old.kept s }
    requires sizes { HasSizes u.now (image_of images.old.kept s) }
    requires still { changed ≡ false → u.now ≡ area_of images.old.kept s }
    ensures { images.new.kept ≡ with_area images.old.kept s u.now }
{
    if changed {
        images.set_area(s, u);
    }
}

/// Goes on with a call on files: a read or a write of a line or of a pipe.
pub(crate) fn resume_on_files(world: &mut World, s: Slot) -> Answer
    requires ready { IsReady world.old s }
    requires pending { is_on_files (area_of world.old.procs.images.kept s).pending ≡ true }
    ensures answer { result ≡ (resumes (handed_of (unix_of world.old) (process_of (unix_of world.old) s)) s world.old.procs.table.now).answer }
    ensures unix { unix_of world.new ≡ with_handed (unix_of world.old) s
        (resumes (handed_of (unix_of world.old) (process_of (unix_of world.old) s)) s world.old.procs.table.now).state }
    ensures shown { IsReadyToShow world.old world.new s
        (resumes (handed_of (unix_of world.old) (process_of (unix_of world.old) s)) s world.old.procs.table.now).items }
    ensures rest { SameRest world.old.files.tree.nodes world.new.files.tree.nodes }
    ensures slots { world.new.slots ≡ world.old.slots }
{
    world.files.tree.nodes.see();
    see_table(&world.files.table);
    see_lines(&world.files.lines);
    world.tape.clear();
    let now = world.procs.table.now;
    let mut u = world.procs.images.area(s);
    see_words(&u.call);
    let mut row = *world.procs.rows.row(s);
    let answer = {
        let mut space = world.procs.images.space(s);
        resume_file(
            &mut world.files,
            s,
            &mut u,
            &mut row,
            &mut space,
            now,
            &mut world.tape,
        )
    };
    see_numbers(&u.files);
    world.procs.images.set_area(s, &u);
    world.procs.rows.set_row(s, row);
    answer
}

/// Writes the image of a process that a signal ends to the file `core`, and says whether the whole of it was written.
pub(crate) fn put_core(world: &mut World, s: Slot) -> bool
    requires ready { IsReady world.old s }
    requires user { is_user (process_of (unix_of world.old) s) ≡ true }
    ensures whole { result ≡ is_written (core_file
        (handed_of (unix_of world.old) (process_of (unix_of world.old) s)) world.old.procs.table.now).answer }
    ensures unix { unix_of world.new ≡ with_handed (unix_of world.old) s (core_file
        (handed_of (unix_of world.old) (process_of (unix_of world.old) s)) world.old.procs.table.now).state }
    ensures ready { IsReady world.new s }
    ensures user { is_user (process_of (unix_of world.new) s) ≡ true }
    ensures procs { world.new.procs ≡ world.old.procs }
    ensures rest { SameRest world.old.files.tree.nodes world.new.files.tree.nodes }
    ensures slots { world.new.slots ≡ world.old.slots }
{
    world.files.tree.nodes.see();
    see_table(&world.files.table);
    see_lines(&world.files.lines);
    let now = world.procs.table.now;
    let u = world.procs.images.area(s);
    let space = world.procs.images.space(s);
    write_core(&mut world.files, &u, &space, now)
}

/// Closes the files of a process that ends.
pub(crate) fn close_files(world: &mut World, s: Slot)
    requires ready { IsReady world.old s }
    requires user { is_user (process_of (unix_of world.old) s) ≡ true }
    ensures unix { unix_of world.new ≡ with_handed (unix_of world.old) s
        (close_all (handed_of (unix_of world.old) (process_of (unix_of world.old) s))).state }
    ensures shown { IsReadyToShow world.old world.new s
        (close_all (handed_of (unix_of world.old) (process_of (unix_of world.old) s))).items }
    ensures rest { SameRest world.old.files.tree.nodes world.new.files.tree.nodes }
    ensures slots { world.new.slots ≡ world.old.slots }
{
    world.files.tree.nodes.see();
    see_table(&world.files.table);
    see_lines(&world.files.lines);
    world.tape.clear();
    let now = world.procs.table.now;
    let mut u = world.procs.images.area(s);
    close_all(&mut world.files, &mut u, now, &mut world.tape);
    see_numbers(&u.files);
    world.procs.images.set_area(s, &u);
}
