//! The texts that processes share: `xalloc` and `xfree` in Lions' Commentary, `text.c`.
ghost use Rattle.std.specs.Prelude.{◌≡◌, ◌≤◌, ◌<◌, ◌==◌, not, ℕ, Some, None, IfOk, IfErr, IfSome, IsSome, count_by, slice_index, bit_and};
ghost use Rattle.fs_codec.specs.declared.modes.TheConstants.{ISVTX};
ghost use Rattle.fs_nodes.specs.FileSystem.{SameRest};
ghost use Rattle.pick_rules.specs.Apply.{change_row};
ghost use Rattle.image_keep.specs.Kept.{text_of, shared};
ghost use Rattle.image_keep.specs.SharedTexts.{row_in, found_text};
ghost use Rattle.sys_procs.specs.Tests.{node_in};
ghost use Rattle.sys_procs.specs.TextTable.{is_text_of};
ghost use Rattle.sys_procs.specs.Texts.{free_entry, xfree, xalloc_by};
ghost use Rattle.sys_procs.specs.World.{texts_in};
ghost use Rattle.sys_procs.specs.inside.Begun.{nothing, leaves, takes, new_entry, taken_by};
ghost use Rattle.sys_procs.specs.inside.Parts.{IsUnread};
ghost use Rattle.sys_procs.specs.Handed.{IsAlive, IsMarked, came, handed};
ghost use Rattle.sys_procs.specs.inside.Handed.{IsBare};
ghost use Rattle.sys_procs.specs.Done.{HasLeft};

use crate::procs::Procs;
use crate::program::Program;
use crate::seen::{see, see_texts};
use fs_codec::ISVTX;
use fs_nodes::Nodes;
use fs_tree::Tree;
use image_keep::{Images, TextRefusal};
use pick_rules::Table;
use text_tab::{Left, TextId};
use v6_base::{Entry, PanicKind, Slot, Trace};

/// Whether the file of a text is sticky: its text stays when nobody uses it.
fn is_sticky(nodes: &Nodes, ino: u16) -> bool
    requires { 0 < slice_index nodes.now.references ino }
    ensures { result ≡ not (bit_and (node_in nodes.now.store ino).mode ISVTX == 0) }
{
    nodes.node(ino).mode & ISVTX != 0
}

/// Gives the row of a slot a text, or none.
fn give_text(table: &mut Table, s: Slot, text: Option<TextId>)
    requires { s < 50 }
    ensures { table.new ≡ change_row table.old s (λ row. record row { text = text }) }
{
    table.rows[s as usize].text = text;
}

/// The inode of the file of a text.
fn inode_of(images: &Images, t: TextId) -> u16
    requires { IsSome (shared images.now.kept t) }
    ensures inode { result ≡ (row_in (shared images.now.kept t)).ino }
    ensures number { result < 65536 }
{
    images.text_row(t).ino
}

/// A process leaves a text that it has, which goes with its last user, unless its file is sticky. The file of a text that
/// goes can be written again.
fn leave_entry<T: Trace>(p: &mut Procs, tree: &mut Tree, s: Slot, t: TextId, trace: &mut T)
    requires alive { IsAlive p.old s }
    requires text { text_of p.old.images.kept s ≡ Some t }
    requires marks { IsMarked p.old tree.old.marks }
    requires referred { (ino : ℕ) → count_by (is_text_of ino) (texts_in p.old.images.kept)
        ≤ slice_index tree.old.nodes.references ino }
    ensures left { HasLeft p.old p.new tree.new.nodes (T.taken trace.old) (T.taken trace.new)
        (xfree (handed p.old tree.old.nodes) s (Some t) nothing) }
    ensures frame { T.leads_to trace.old trace.new }
    ensures alive { IsAlive p.new s }
    ensures none { text_of p.new.images.kept s ≡ None }
    ensures marks { IsMarked p.new tree.new.marks }
    ensures mounts { tree.new.mounts ≡ tree.old.mounts }
    ensures blocks { SameRest tree.old.nodes tree.new.nodes }
{
    see(p, s);
    see_texts(&p.images);
    let ino = inode_of(&p.images, t);
    let sticky = is_sticky(&tree.nodes, ino);
    give_text(&mut p.table, s, None);
    trace.entry(Entry::Leave {
        slot: s,
        text: t,
        sticky,
    });
    match p.images.leave_text(s, sticky) {
        Left::Used | Left::Kept => {}
        Left::Gone => tree.unmark_text(ino, p.table.now),
    }
}

/// A process leaves its text, if it has one: `xfree`.
pub(crate) fn leave_text<T: Trace>(p: &mut Procs, tree: &mut Tree, s: Slot, trace: &mut T)
    requires alive { IsAlive p.old s }
    requires marks { IsMarked p.old tree.old.marks }
    requires referred { (ino : ℕ) → count_by (is_text_of ino) (texts_in p.old.images.kept)
        ≤ slice_index tree.old.nodes.references ino }
    ensures left { HasLeft p.old p.new tree.new.nodes (T.taken trace.old) (T.taken trace.new)
        (leaves (handed p.old tree.old.nodes) s) }
    ensures frame { T.leads_to trace.old trace.new }
    ensures alive { IsAlive p.new s }
    ensures none { text_of p.new.images.kept s ≡ None }
    ensures marks { IsMarked p.new tree.new.marks }
    ensures mounts { tree.new.mounts ≡ tree.old.mounts }
    ensures blocks { SameRest tree.old.nodes tree.new.nodes }
{
    if let Some(t) = p.table.rows[s as usize].text {
        leave_entry(p, tree, s, t, trace);
    }
}

/// A process without an image shares a text that is there.
fn join_text<T: Trace>(p: &mut Procs, tree: &Tree, s: Slot, t: TextId, trace: &mut T)
    requires bare { IsBare p.old s }
    requires none { text_of p.old.images.kept s ≡ None }
    requires used { IsSome (shared p.old.images.kept t) }
    requires marks { IsMarked p.old tree.now.marks }
    ensures left { (ino : ℕ) (size : ℕ) → HasLeft p.old p.new tree.now.nodes (T.taken trace.old) (T.taken trace.new)
        (xalloc_by (handed p.old tree.now.nodes) s ino size (Some t) (λ placed is_new. nothing placed)) }
    ensures frame { T.leads_to trace.old trace.new }
    ensures bare { IsBare p.new s }
    ensures marks { IsMarked p.new tree.now.marks }
{
    let _place = p.images.place(s);
    p.images.join_text(s, t);
    give_text(&mut p.table, s, Some(t));
    trace.entry(Entry::Share { slot: s, text: t });
}

/// Which panic a text comes to that isn't made.
fn panic_of(refusal: TextRefusal) -> PanicKind
    ensures full { refusal ≡ TextRefusal.Full → result ≡ PanicKind.Text }
    ensures swap { refusal ≡ TextRefusal.NoSwap → result ≡ PanicKind.Swap }
{
    match refusal {
        TextRefusal::Full => PanicKind::Text,
        TextRefusal::NoSwap => PanicKind::Swap,
    }
}

/// A process without an image makes a text of so many clicks for the file of an inode, which is referred to once more and
/// cannot be written from now on. The text is zeros until it is read.
///
/// # Errors
///
/// `Text`: forty texts are there. `Swap`: there are fewer, and the swap area has no room. Both are panics, and nothing has
/// changed but the log.
fn make_text<T: Trace>(
    p: &mut Procs,
    tree: &mut Tree,
    s: Slot,
    ino: u16,
    clicks: u16,
    trace: &mut T,
) -> Result<TextId, PanicKind>
    requires bare { IsBare p.old s }
    requires none { text_of p.old.images.kept s ≡ None }
    requires unknown { found_text p.old.images.kept ino ≡ None }
    requires some { 0 < clicks }
    requires referenced { 0 < slice_index tree.old.nodes.references ino }
    requires few { (i : ℕ) → slice_index tree.old.nodes.references i ≤ 65530 }
    requires marks { IsMarked p.old tree.old.marks }
    ensures left { HasLeft p.old p.new tree.new.nodes (T.taken trace.old) (T.taken trace.new)
        (xalloc_by (handed p.old tree.old.nodes) s ino clicks None (λ placed is_new. nothing placed)) }
    ensures kind { IfErr result (λ kind. taken_by (came p.old
        (xalloc_by (handed p.old tree.old.nodes) s ino clicks None (λ placed is_new. nothing placed))).stop None ≡ Err kind) }
    ensures made { IfOk result (λ t. ((came p.old
        (xalloc_by (handed p.old tree.old.nodes) s ino clicks None (λ placed is_new. nothing placed))).stop ≡ None)
        × (t ≡ free_entry (texts_in p.old.images.kept)) × (text_of p.new.images.kept s ≡ Some t)) }
    ensures unread { IfOk result (λ t. IsUnread p.new.images.kept t clicks 0) }
    ensures frame { T.leads_to trace.old trace.new }
    ensures bare { IsBare p.new s }
    ensures marks { IsMarked p.new tree.new.marks }
    ensures mounts { tree.new.mounts ≡ tree.old.mounts }
    ensures blocks { tree.new.nodes.blocks ≡ tree.old.nodes.blocks }
{
    let _place = p.images.place(s);
    match p.images.new_text(s, ino, clicks) {
        Ok(t) => {
            tree.mark_text(ino);
            give_text(&mut p.table, s, Some(t));
            let block = p.images.text_row(t).block;
            trace.entry(Entry::Text {
                slot: s,
                text: t,
                clicks,
                block,
            });
            Ok(t)
        }
        Err(refusal) => {
            let kind = panic_of(refusal);
            trace.entry(Entry::Panic(kind));
            Err(kind)
        }
    }
}

/// A process without an image shares the text of a program, which it makes where it isn't there: `xalloc`. The answer is
/// the text that is to be read.
///
/// # Errors
///
/// Those of a text that cannot be made.
pub(crate) fn take_text<T: Trace>(
    p: &mut Procs,
    tree: &mut Tree,
    s: Slot,
    program: &Program,
    trace: &mut T,
) -> Result<Option<TextId>, PanicKind>
    requires bare { IsBare p.old s }
    requires none { text_of p.old.images.kept s ≡ None }
    requires referenced { 0 < slice_index tree.old.nodes.references program.now.ino }
    requires few { (i : ℕ) → slice_index tree.old.nodes.references i ≤ 65530 }
    requires marks { IsMarked p.old tree.old.marks }
    ensures left { HasLeft p.old p.new tree.new.nodes (T.taken trace.old) (T.taken trace.new)
        (takes (handed p.old tree.old.nodes) s program.now.ino program.now.text_clicks) }
    ensures answer { result ≡ taken_by
        (came p.old (takes (handed p.old tree.old.nodes) s program.now.ino program.now.text_clicks)).stop
        (new_entry (texts_in p.old.images.kept) program.now.ino program.now.text_clicks) }
    ensures new { IfOk result (λ new. IfSome new (λ t. text_of p.new.images.kept s ≡ Some t)) }
    ensures unread { IfOk result (λ new. IfSome new (λ t. IsUnread p.new.images.kept t program.now.text_clicks 0)) }
    ensures frame { T.leads_to trace.old trace.new }
    ensures bare { IsBare p.new s }
    ensures marks { IsMarked p.new tree.new.marks }
    ensures mounts { tree.new.mounts ≡ tree.old.mounts }
    ensures blocks { tree.new.nodes.blocks ≡ tree.old.nodes.blocks }
{
    if program.text_clicks == 0 {
        return Ok(None);
    }
    match p.images.find_text(program.ino) {
        Some(t) => {
            join_text(p, tree, s, t, trace);
            Ok(None)
        }
        None => {
            let t = make_text(p, tree, s, program.ino, program.text_clicks, trace)?;
            Ok(Some(t))
        }
    }
}
