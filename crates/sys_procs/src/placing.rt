//! The place of a new program's image: `exec` in Lions' Commentary, `sys1.c`.
ghost use Rattle.std.specs.Prelude.{◌≡◌, ◌<◌, ◌+◌, ℕ, ◌∷◌, [], false, None, Some, MatchResult, IfOk, IfErr};
ghost use Rattle.v6_base.specs.Trace.{Took, Log};
ghost use Rattle.fs_nodes.specs.FileSystem.{FileSystem};
ghost use Rattle.pick_rules.specs.Apply.{change_row};
ghost use Rattle.pick_rules.specs.Table.{IsTable};
ghost use Rattle.image_keep.specs.Area.{made_area};
ghost use Rattle.image_keep.specs.Growth.{most_clicks};
ghost use Rattle.image_keep.specs.Kept.{Shared, Nothing, keeping, with_keeping, shared, text_of, text_bytes, text_clicks, image_of};
ghost use Rattle.image_keep.specs.Moves.{with_image_moved};
ghost use Rattle.image_keep.specs.Places as images_of;
ghost use Rattle.image_keep.specs.Places.{made_image};
ghost use Rattle.seg_regs.specs.Sizes.{is_refused};
ghost use Rattle.sys_procs.specs.World.{change};
ghost use Rattle.sys_procs.specs.inside.Seats.{with_place};
ghost use Rattle.sys_procs.specs.ExecFile.{bared};
ghost use Rattle.sys_procs.specs.inside.Begun.{bare_board, takes_image};
ghost use Rattle.sys_procs.specs.Handed.{IsAlive, board, handed};
ghost use Rattle.sys_procs.specs.inside.Handed.{IsBare};
ghost use Rattle.sys_procs.specs.Done.{HasEnded};

use crate::procs::Procs;
use crate::seen::see;
use image_keep::{Images, NoSwap};
use pick_rules::Table;
use seg_regs::Proto;
use text_tab::TextId;
use v6_base::{Entry, PanicKind, Place, Slot, Trace};

/// The clicks of a u area: `USIZE`.
pub(crate) const AREA: u16 = 16;

/// The clicks of the stack of a new program: `SSIZE` in Lions' Commentary, `param.h`.
pub(crate) const STACK: u16 = 20;

/// Gives the row of a slot the size and the place of its image. In the swap area its time begins anew, and the swapper is
/// told.
pub(crate) fn put_place(table: &mut Table, s: Slot, clicks: u16, place: Place)
    requires table { IsTable table.old }
    requires slot { s < 50 }
    ensures table { table.new ≡ with_place table.old s clicks place }
    ensures good { IsTable table.new }
{
    let row = &mut table.rows[s as usize];
    row.size = clicks;
    row.place = Some(place);
    if let Place::Swap(_) = place {
        row.time = 0;
        table.tell_swapper();
    }
}

/// Takes the size and the place from the row of a slot.
fn clear_place(table: &mut Table, s: Slot)
    requires { s < 50 }
    ensures { table.new ≡ change_row table.old s (λ row. record row { size = 0; place = None }) }
{
    let row = &mut table.rows[s as usize];
    row.size = 0;
    row.place = None;
}

/// Gives the image of a process without a text back, with its u area.
pub(crate) fn leave_place<T: Trace>(p: &mut Procs, s: Slot, trace: &mut T)
    requires alive { IsAlive p.old s }
    requires none { text_of p.old.images.kept s ≡ None }
    ensures state { (fs : FileSystem) → handed p.new fs ≡ change (handed p.old fs) s bared }
    ensures images { p.new.images.kept ≡ with_keeping p.old.images.kept s Nothing }
    ensures board { board p.new ≡ bare_board (board p.old) s }
    ensures items { Took (T.taken trace.old) (Log (Entry.Bare s) ∷ []) (T.taken trace.new) }
    ensures frame { T.leads_to trace.old trace.new }
    ensures bare { IsBare p.new s }
{
    see(p, s);
    p.images.bare(s);
    clear_place(&mut p.table, s);
    trace.entry(Entry::Bare(s));
}

/// Makes an image in a slot without one, beside its text, which is cleared.
///
/// # Errors
///
/// `NoSwap`: there is no place for it.
fn new_image(
    images: &mut Images,
    s: Slot,
    t: u16,
    d: u16,
    text: Option<TextId>,
) -> Result<Place, NoSwap>
    requires slot { s < 50 }
    requires nothing { keeping images.old.kept s ≡ Nothing }
    requires text { text ≡ text_of images.old.kept s }
    requires clicks { t ≡ text_clicks images.old.kept text }
    requires sizes { is_refused t d 20 (most_clicks images.old.kept) ≡ false }
    ensures place { MatchResult result
        (λ place. images_of.placed images.old.kept s (16 + d + 20) ≡ Some place)
        (λ _. images_of.placed images.old.kept s (16 + d + 20) ≡ None) }
    ensures images { images.new.kept ≡ with_image_moved images.old.kept s (made_area t d 20)
        (made_image (text_bytes images.old.kept text) d 20) (images_of.placed images.old.kept s (16 + d + 20)) }
{
    let Ok(proto) = Proto::make(t, d, STACK, images.limit()) else {
        unreachable!()
    };
    images.replace(s, proto, text)
}

/// Places a new image of so many clicks of data, beside a text of so many, in a slot without one. The image is cleared. It
/// isn't in core where its text isn't, which stays there as it is.
///
/// # Errors
///
/// `Swap`: neither core nor the swap area has room for it, which is a panic. Nothing has changed then but the log.
pub(crate) fn place_image<T: Trace>(
    p: &mut Procs,
    s: Slot,
    t: u16,
    d: u16,
    trace: &mut T,
) -> Result<(), PanicKind>
    requires bare { IsBare p.old s }
    requires clicks { t ≡ text_clicks p.old.images.kept (text_of p.old.images.kept s) }
    requires sizes { is_refused t d 20 (most_clicks p.old.images.kept) ≡ false }
    ensures does { (fs : FileSystem) → HasEnded p.old p.new fs result (T.taken trace.old) (T.taken trace.new)
        (takes_image (handed p.old fs) s t d) }
    ensures image { IfOk result (λ placed. image_of p.new.images.kept s
        ≡ made_image (text_bytes p.old.images.kept (text_of p.old.images.kept s)) d 20) }
    ensures text { text_of p.new.images.kept s ≡ text_of p.old.images.kept s }
    ensures stays { (t : ℕ) (x : Shared) → shared p.old.images.kept t ≡ Some x → x.row.loaded ≡ 0 → shared p.new.images.kept t ≡ Some x }
    ensures time { p.new.table.now ≡ p.old.table.now }
    ensures frame { T.leads_to trace.old trace.new }
    ensures alive { IfOk result (λ placed. IsAlive p.new s) }
    ensures bare { IfErr result (λ kind. IsBare p.new s) }
{
    let _place = p.images.place(s);
    let text = p.table.rows[s as usize].text;
    match new_image(&mut p.images, s, t, d, text) {
        Ok(place) => {
            let clicks = AREA + d + STACK;
            put_place(&mut p.table, s, clicks, place);
            trace.entry(Entry::Image {
                slot: s,
                clicks,
                place,
            });
            Ok(())
        }
        Err(_) => {
            trace.entry(Entry::Panic(PanicKind::Swap));
            Err(PanicKind::Swap)
        }
    }
}
