//! Scenes: what happens on the small disk, step by step.
ghost use Rattle.std.specs.Prelude.{◌≡◌, true};
ghost use Rattle.v6_base.specs.Image.{Image};
ghost use Rattle.proc_tab.specs.declared.row.Row.{Row};
ghost use Rattle.sys_files.specs.Handed.{handed};
ghost use Rattle.sys_files.specs.Sound.{CanGoOn};
ghost use Rattle.fs_nodes.specs.Keys.{counts};
ghost use Rattle.file_rows.specs.Ready.{IsReady};

use crate::file_system::files::have_room;
use crate::system_calls::calls::{Call, Told, answer, is, number};
use crate::system_calls::looks::{Look, shows};
use crate::system_calls::world::{World, begin};
use lines_eight::Lines;
use std::alloc::{AllocError, Global};
use sys_files::resume_file;
use u_area::{LINE_WRITE, is_on_files};
use v6_base::{Space, Tape, Whole};

/// A step of a scene.
#[derive(Clone, Copy)]
pub enum Step {
    /// A call, and what it must come to.
    Does(Call, Told),
    /// The call that waits is taken up again, and what it must come to.
    GoesOn(Told),
    /// What must be there then.
    Has(Look),
    /// The process is this user's and this group's from now on.
    User(u8, u8),
    /// The time is this one from now on.
    Now(u32),
    /// The process has this terminal from now on.
    OnLine(u8),
    /// Another process, without an open file, goes on.
    Fresh,
    /// The process has this signal from now on, or none.
    Posts(u8),
    /// The memory has 64 bytes of text from address 0 on, and its data begin at address 8,192.
    Text,
    /// Bytes stand at an address.
    Puts(u16, &'static [u8]),
    /// These bytes are typed on the console. Whom that wakes or interrupts is no matter here.
    Types(&'static [u8]),
    /// The same on another line.
    TypesOn(u8, &'static [u8]),
    /// There are eight lines from now on, and none is open.
    EightLines,
    /// A line has a pace from now on, or none.
    Paces(u8, bool),
    /// So many bytes are sent on a line. The last of them wakes those who wait for room or not, and the others do not.
    Sends(u8, u16, bool),
    /// `/f` is opened so often, by the numbers from 0 on.
    Opens(u16),
}

/// A scene: words of the disk that are changed before; inodes to which others refer; and the steps.
#[derive(Clone, Copy)]
pub struct Scene {
    pub name: &'static str,
    pub disk: &'static [(usize, u16)],
    pub crowd: u16,
    pub steps: &'static [Step],
}

fn does(w: &mut World, call: Call, told: Told) -> bool
    requires { IsReady w.old.files.table w.old.files.pipes w.old.u.files w.old.u.dir w.old.files.tree.mounts
        w.old.files.tree.nodes.references (counts w.old.files.tree.nodes.store) }
    ensures { IsReady w.new.files.table w.new.files.pipes w.new.u.files w.new.u.dir w.new.files.tree.mounts
        w.new.files.tree.nodes.references (counts w.new.files.tree.nodes.store) }
{
    if !have_room(&w.files.table) {
        return false;
    }
    let answer = answer(w, call);
    is(answer, number(call), told)
}

/// Whether the process waits in a call that can go on: a read or a write of the console, or of a pipe, whose file is open still.
fn can_go_on(w: &World) -> bool
    ensures { result ≡ true → (row : Row) (image : Image) → CanGoOn (handed w.entry.now.files w.entry.now.u row image) }
{
    let [entry, _, count, so_far, ..] = w.u.call;
    if entry >= 100 || so_far > count || !w.files.table.in_use(entry as u8) {
        return false;
    }
    is_on_files(w.u.pending)
        && (w.u.pending <= LINE_WRITE || w.files.table.file(entry as u8).kind.pipe)
}

fn goes_on(w: &mut World, told: Told) -> bool
    requires { IsReady w.old.files.table w.old.files.pipes w.old.u.files w.old.u.dir w.old.files.tree.mounts
        w.old.files.tree.nodes.references (counts w.old.files.tree.nodes.store) }
    ensures { IsReady w.new.files.table w.new.files.pipes w.new.u.files w.new.u.dir w.new.files.tree.mounts
        w.new.files.tree.nodes.references (counts w.new.files.tree.nodes.store) }
{
    if !have_room(&w.files.table) || !can_go_on(w) {
        return false;
    }
    let r0 = w.u.r[0];
    let answer = resume_file(
        &mut w.files,
        1,
        &mut w.u,
        &mut w.row,
        &mut w.space,
        w.now,
        &mut w.tape,
    );
    is(answer, r0, told)
}

fn types(lines: &mut Lines, l: u8, bytes: &[u8], tape: &mut Tape) -> bool {
    for byte in bytes {
        if l < lines.count() {
            let _ = lines.typed(l, *byte, tape);
        }
    }
    true
}

fn paces(lines: &mut Lines, l: u8, on: bool, tape: &mut Tape) -> bool {
    if l < lines.count() {
        let _ = lines.set_pace(l, on, tape);
    }
    true
}

fn sends(lines: &mut Lines, l: u8, count: u16, show: bool, tape: &mut Tape) -> bool {
    for k in 0..count {
        let wanted = show && k == count - 1;
        if l >= lines.count() || lines.send(l, tape) != wanted {
            return false;
        }
    }
    true
}

fn opens(w: &mut World, count: u16) -> bool
    requires { IsReady w.old.files.table w.old.files.pipes w.old.u.files w.old.u.dir w.old.files.tree.mounts
        w.old.files.tree.nodes.references (counts w.old.files.tree.nodes.store) }
    ensures { IsReady w.new.files.table w.new.files.pipes w.new.u.files w.new.u.dir w.new.files.tree.mounts
        w.new.files.tree.nodes.references (counts w.new.files.tree.nodes.store) }
{
    for fd in 0..count {
        if !does(w, Call::Open(b"/f\0", 0), Told::Gives(fd)) {
            return false;
        }
    }
    true
}

fn puts(space: &mut Whole, at: u16, bytes: &[u8]) -> bool {
    for (k, byte) in bytes.iter().enumerate() {
        let _ = space.store_byte(at.wrapping_add((k % 65536) as u16), *byte);
    }
    true
}

/// A change of what a call is handed.
fn changes(w: &mut World, step: Step) -> bool
    requires { IsReady w.old.files.table w.old.files.pipes w.old.u.files w.old.u.dir w.old.files.tree.mounts
        w.old.files.tree.nodes.references (counts w.old.files.tree.nodes.store) }
    ensures { IsReady w.new.files.table w.new.files.pipes w.new.u.files w.new.u.dir w.new.files.tree.mounts
        w.new.files.tree.nodes.references (counts w.new.files.tree.nodes.store) }
{
    match step {
        Step::User(uid, gid) => (w.u.uid, w.u.gid) = (uid, gid),
        Step::Now(time) => w.now = time,
        Step::OnLine(tty) => w.row.tty = tty,
        Step::Fresh => w.u.files = [0; 15],
        Step::Posts(sig) => w.row.sig = sig,
        Step::EightLines => w.files.lines = Lines::new(8),
        Step::Text => w.space.set_sizes(1, 20, 1),
        _ => return false,
    }
    true
}

fn holds(w: &mut World, step: Step) -> bool
    requires { IsReady w.old.files.table w.old.files.pipes w.old.u.files w.old.u.dir w.old.files.tree.mounts
        w.old.files.tree.nodes.references (counts w.old.files.tree.nodes.store) }
    ensures { IsReady w.new.files.table w.new.files.pipes w.new.u.files w.new.u.dir w.new.files.tree.mounts
        w.new.files.tree.nodes.references (counts w.new.files.tree.nodes.store) }
{
    match step {
        Step::Does(call, told) => does(w, call, told),
        Step::GoesOn(told) => goes_on(w, told),
        Step::Has(look) => shows(w, look),
        Step::Opens(count) => opens(w, count),
        Step::Puts(at, bytes) => puts(&mut w.space, at, bytes),
        Step::Types(bytes) => types(&mut w.files.lines, 0, bytes, &mut w.tape),
        Step::TypesOn(l, bytes) => types(&mut w.files.lines, l, bytes, &mut w.tape),
        Step::Paces(l, on) => paces(&mut w.files.lines, l, on, &mut w.tape),
        Step::Sends(l, count, show) => sends(&mut w.files.lines, l, count, show, &mut w.tape),
        _ => changes(w, step),
    }
}

/// The number of the first step that does not hold, from 0 on.
pub fn first_of(w: &mut World, steps: &[Step]) -> Option<usize>
    requires { IsReady w.old.files.table w.old.files.pipes w.old.u.files w.old.u.dir w.old.files.tree.mounts
        w.old.files.tree.nodes.references (counts w.old.files.tree.nodes.store) }
{
    for (k, step) in steps.iter().enumerate() {
        if !holds(w, *step) {
            return Some(k);
        }
    }
    None
}

/// The number of the first step of a scene that does not hold.
fn first_failure(alloc: Global, scene: &Scene) -> Result<Option<usize>, AllocError> {
    match begin(alloc, scene.disk, scene.crowd)? {
        Some(mut w) => Ok(first_of(&mut w, scene.steps)),
        None => Ok(Some(usize::MAX)),
    }
}

/// The first step of these scenes that does not hold.
pub fn failure(
    alloc: Global,
    scenes: &[Scene],
) -> Result<Option<(&'static str, usize)>, AllocError> {
    for scene in scenes {
        if let Some(k) = first_failure(alloc, scene)? {
            return Ok(Some((scene.name, k)));
        }
    }
    Ok(None)
}
