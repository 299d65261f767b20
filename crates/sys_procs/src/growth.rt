//! break(II), and the growth of a stack.
ghost use Rattle.std.specs.Prelude.{◌≡◌, ◌<◌, nat_le, false, if◌then◌else◌, slice_index};
ghost use Rattle.fs_nodes.specs.FileSystem.{FileSystem, SameRest};
ghost use Rattle.image_keep.specs.Growth.{most_clicks};
ghost use Rattle.pick_rules.specs.Apply.{change_row};
ghost use Rattle.pick_rules.specs.Table.{IsTable, row_at};
ghost use Rattle.seg_regs.specs.Sizes.{is_refused};
ghost use Rattle.sys_procs.specs.Break.{expands, clicks_up_to, grown_stack, break_at, grow};
ghost use Rattle.sys_procs.specs.Handed.{AreProcs, Calls, IsAlive, handed, process_here};
ghost use Rattle.sys_procs.specs.Done.{HasDone, HasEnded, HasGrown};
ghost use Rattle.sys_procs.specs.inside.Seats.{with_place};

use crate::placing::{AREA, put_place};
use crate::procs::Procs;
use crate::seen::see;
use fs_tree::Tree;
use pick_rules::Table;
use seg_regs::Proto;
use u_area::{register, sizes};
use v6_base::{Answer, Entry, Errno, PanicKind, Place, Slot, Trace};

/// How many clicks a stack grows beyond what is asked for: `SINCR`.
const INCREMENT: u32 = 20;

/// The bytes of all segments.
const SEGMENTS: u32 = 65536;

/// The bytes of a click.
const CLICK: u32 = 64;

/// Gives the row of a slot the size of its image, and the place that it has taken where it has grown. The answer is the line
/// of the log.
fn put_size(table: &mut Table, s: Slot, clicks: u16, place: Place) -> Entry
    requires table { IsTable table.old }
    requires slot { s < 50 }
    ensures line { result ≡ (if nat_le clicks (row_at table.old s).size then Entry.SizeKeep s clicks else Entry.Size s clicks place) }
    ensures table { table.new ≡ (if nat_le clicks (row_at table.old s).size
        then change_row table.old s (λ row. record row { size = clicks })
        else with_place table.old s clicks place) }
    ensures good { IsTable table.new }
{
    if clicks <= table.rows[s as usize].size {
        table.rows[s as usize].size = clicks;
        Entry::SizeKeep { slot: s, clicks }
    } else {
        put_place(table, s, clicks, place);
        Entry::Size {
            slot: s,
            clicks,
            place,
        }
    }
}

/// Gives the image of a process other sizes of data and stack.
///
/// # Errors
///
/// `Swap`: it grows, and neither core nor the swap area has room. Nothing but the log changes then.
fn expand<T: Trace>(
    p: &mut Procs,
    s: Slot,
    d: u16,
    stack: u16,
    trace: &mut T,
) -> Result<(), PanicKind>
    requires alive { IsAlive p.old s }
    requires sizes { is_refused (process_here p.old s).u.text_size d stack (most_clicks p.old.images.kept) ≡ false }
    ensures does { (fs : FileSystem) → HasEnded p.old p.new fs result (T.taken trace.old) (T.taken trace.new)
        (expands (handed p.old fs) s d stack) }
    ensures frame { T.leads_to trace.old trace.new }
    ensures agree { AreProcs p.new }
{
    see(p, s);
    match p.images.resize(s, d, stack) {
        Ok(place) => {
            let line = put_size(&mut p.table, s, AREA + d + stack, place);
            trace.entry(line);
            Ok(())
        }
        Err(_) => {
            trace.entry(Entry::Panic(PanicKind::Swap));
            Err(PanicKind::Swap)
        }
    }
}

/// The clicks of data up to an address, after a text of so many clicks, which takes whole segments. The address is
/// rounded up to a click, and wraps round.
fn clicks_up_to(text: u16, at: u16) -> u16
    ensures { result ≡ clicks_up_to text at }
{
    let base = (u32::from(text) + 127) / 128 * 128;
    let end = u32::from(at.wrapping_add(63)) / CLICK;
    end.saturating_sub(base) as u16
}

/// The clicks of a stack that has grown for an address: the whole clicks from the address on, and 20 more. It doesn't
/// grow for an address that it has already, nor for 0, nor where there is none, nor to sizes that are refused.
#[tactic(auto, unfolding(crate::specs::Break::grown_stack))]
fn grown_stack(text: u16, d: u16, stack: u16, most: u16, sp: u16) -> Option<u16>
    ensures { result ≡ grown_stack text d stack most sp }
{
    if sp == 0 || stack == 0 || u32::from(sp) + CLICK * u32::from(stack) >= SEGMENTS {
        return None;
    }
    let wanted = ((SEGMENTS - u32::from(sp)) / CLICK + INCREMENT) as u16;
    if wanted <= stack || Proto::make(text, d, wanted, most).is_err() {
        return None;
    }
    Some(wanted)
}

/// break(II): makes an address the end of the data, rounded up to a click. What is new there is cleared. The image is
/// placed anew where it grows. Lions' Commentary, `sbreak` in `sys1.c`.
///
/// # Errors
///
/// `ENOMEM`: the sizes are refused, and nothing changes. `Swap`: the image grows, and neither core nor the swap area has room for
/// it. The system stops with a panic.
pub fn break_at<T: Trace>(
    p: &mut Procs,
    tree: &mut Tree,
    s: Slot,
    args: [u16; 4],
    trace: &mut T,
) -> Result<Answer, PanicKind>
    requires { Calls p.old tree.old.nodes s }
    ensures does { HasDone p.old p.new tree.new.nodes result (T.taken trace.old) (T.taken trace.new)
        (break_at (handed p.old tree.old.nodes) s (slice_index args 0)) }
    ensures frame { T.leads_to trace.old trace.new }
    ensures agree { AreProcs p.new }
    ensures marks { tree.new.marks ≡ tree.old.marks }
    ensures mounts { tree.new.mounts ≡ tree.old.mounts }
    ensures blocks { SameRest tree.old.nodes tree.new.nodes }
{
    let area = p.area_bytes(s);
    let [text_size, _, stack_size] = sizes(area);
    let r0 = register(area, 0);
    let r1 = register(area, 1);
    let d = clicks_up_to(text_size, args[0]);
    if Proto::make(text_size, d, stack_size, p.images.limit()).is_err() {
        return Ok(Answer::Fail(Errno::ENOMEM));
    }
    match expand(p, s, d, stack_size, trace) {
        Ok(()) => Ok(Answer::Ret { r0, r1 }),
        Err(kind) => Err(kind),
    }
}

/// Lets the stack of a process grow down to an address, and 20 clicks further, where it may: what an instruction wanted
/// there can be done then. The answer is whether it has grown. `grow` in Lions' Commentary, `sig.c`.
///
/// # Errors
///
/// `Swap`: neither core nor the swap area has room for the image. The system stops with a panic.
pub fn grow<T: Trace>(
    p: &mut Procs,
    tree: &mut Tree,
    s: Slot,
    sp: u16,
    trace: &mut T,
) -> Result<bool, PanicKind>
    requires { Calls p.old tree.old.nodes s }
    ensures does { HasGrown p.old p.new tree.new.nodes (handed p.old tree.old.nodes) s result (T.taken trace.old)
        (T.taken trace.new) (grow (handed p.old tree.old.nodes) s sp) }
    ensures frame { T.leads_to trace.old trace.new }
    ensures agree { AreProcs p.new }
    ensures marks { tree.new.marks ≡ tree.old.marks }
    ensures mounts { tree.new.mounts ≡ tree.old.mounts }
    ensures blocks { SameRest tree.old.nodes tree.new.nodes }
{
    let [text_size, data_size, stack_size] = sizes(p.area_bytes(s));
    let Some(stack) = grown_stack(text_size, data_size, stack_size, p.images.limit(), sp) else {
        return Ok(false);
    };
    match expand(p, s, data_size, stack, trace) {
        Ok(()) => Ok(true),
        Err(kind) => Err(kind),
    }
}
