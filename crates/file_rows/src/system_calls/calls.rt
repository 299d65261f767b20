//! The calls, and what they answer: INTRO(II).
ghost use Rattle.std.specs.Prelude.{◌≡◌, length};
ghost use Rattle.v6_base.specs.Image.{Image};
ghost use Rattle.v6_base.specs.Whole.{whole_image};
ghost use Rattle.proc_tab.specs.declared.row.Row.{Row};
ghost use Rattle.open_files.specs.Files.{HaveRoom};
ghost use Rattle.sys_files.specs.Handed.{handed};
ghost use Rattle.sys_files.specs.Sound.{IsSound, IsKept};
ghost use Rattle.fs_nodes.specs.Keys.{counts};
ghost use Rattle.file_rows.specs.Ready.{IsReady};

use crate::system_calls::world::{DATA_END, World};
use proc_tab::Row;
use sys_files::{
    Files, chdir_to, chmod_to, chown_to, close_all, close_file, creat_file, dup_file, gtty_get,
    link_file, mknod_at, open_file, pipe_new, read_file, seek_to, stat_file, stat_open, stty_set,
    sync_all, unlink_file, write_file,
};
use u_area::UArea;
use v6_base::{Answer, Chan, Errno, Space, Tape, Whole};

/// A call with its arguments. A number of an open file stands in R0. A name is put into the memory so that its last byte is the last
/// that can be read: one without a 0 at its end runs into a fault.
#[derive(Clone, Copy)]
pub enum Call {
    Dup(u16),
    Close(u16),
    CloseAll,
    Seek(u16, u16, u16),
    /// A number, an address and a count of bytes.
    Read(u16, u16, u16),
    Write(u16, u16, u16),
    Fstat(u16, u16),
    /// A number and the address of three words.
    Stty(u16, u16),
    Gtty(u16, u16),
    Open(&'static [u8], u16),
    Creat(&'static [u8], u16),
    Mknod(&'static [u8], u16, u16),
    Link(&'static [u8], &'static [u8]),
    /// The new name is at an address.
    LinkAt(&'static [u8], u16),
    Unlink(&'static [u8]),
    Chdir(&'static [u8]),
    Chmod(&'static [u8], u16),
    Chown(&'static [u8], u16),
    /// A name and an address.
    Stat(&'static [u8], u16),
    Sync,
    Pipe,
}

/// What a call comes to.
#[derive(Clone, Copy)]
pub enum Told {
    /// It is done, and R0 and R1 stay.
    Done,
    /// It is done, R0 takes a word, and R1 stays.
    Gives(u16),
    /// It is done, and R0 and R1 take a word each.
    GivesTwo(u16, u16),
    Fails(Errno),
    /// It waits for keys, at the priority of terminal input.
    Waits,
    /// It waits for keys, or for room in what waits to go out, of a line of this channel, at this priority.
    WaitsOn(i8, Chan),
    /// It waits for bytes of a pipe, or for room, at the priority of pipes.
    WaitsIn(Chan),
}

/// R0 of a call without a number, and R1 of every call before it.
const R0: u16 = 0o123;

const R1: u16 = 0o456;

/// Where the new name of a link ends.
const NEW_END: u16 = 1200;

/// Puts a name so that it ends at an address, and says where it begins.
fn put_name(space: &mut Whole, name: &[u8], end: u16) -> u16 {
    let length = (name.len() % 65536) as u16;
    let start = end.wrapping_sub(length);
    for (k, byte) in name.iter().enumerate() {
        let _ = space.store_byte(start.wrapping_add((k % 65536) as u16), *byte);
    }
    start
}

/// The number that a call has in R0.
pub fn number(call: Call) -> u16 {
    match call {
        Call::Dup(fd) | Call::Close(fd) | Call::Seek(fd, ..) => fd,
        Call::Read(fd, ..) | Call::Write(fd, ..) | Call::Fstat(fd, _) => fd,
        Call::Stty(fd, _) | Call::Gtty(fd, _) => fd,
        _ => R0,
    }
}

/// Puts a call's names into the memory. Its arguments are the answer.
fn arguments(space: &mut Whole, call: Call) -> [u16; 4] {
    match call {
        Call::Seek(_, a, b) | Call::Read(_, a, b) | Call::Write(_, a, b) => [a, b, 0, 0],
        Call::Fstat(_, a) | Call::Stty(_, a) | Call::Gtty(_, a) => [a, 0, 0, 0],
        Call::Unlink(name) | Call::Chdir(name) => [put_name(space, name, DATA_END), 0, 0, 0],
        Call::Open(name, a)
        | Call::Creat(name, a)
        | Call::LinkAt(name, a)
        | Call::Chmod(name, a)
        | Call::Chown(name, a)
        | Call::Stat(name, a) => [put_name(space, name, DATA_END), a, 0, 0],
        Call::Mknod(name, a, b) => [put_name(space, name, DATA_END), a, b, 0],
        Call::Link(name, new) => {
            let at = put_name(space, new, NEW_END);
            [put_name(space, name, DATA_END), at, 0, 0]
        }
        Call::Dup(_) | Call::Close(_) | Call::CloseAll | Call::Sync | Call::Pipe => [0; 4],
    }
}

/// The calls of the number in R0, and those without an argument.
fn by_number(
    f: &mut Files,
    u: &mut UArea,
    row: &mut Row,
    s: &mut Whole,
    t: &mut Tape,
    now: u32,
    call: Call,
    args: [u16; 4],
) -> Answer
    requires { (r : Row) (i : Image) → IsSound (handed f.old u.old r i) }
    ensures { IsKept (handed f.old u.old row.old (whole_image s.old)) (handed f.new u.new row.new (whole_image s.new)) }
{
    match call {
        Call::Dup(_) => dup_file(f, 1, u, row, s, args, now, t),
        Call::Close(_) => close_file(f, 1, u, row, s, args, now, t),
        Call::Seek(..) => seek_to(f, 1, u, row, s, args, now, t),
        Call::Read(..) => read_file(f, 1, u, row, s, args, now, t),
        Call::Write(..) => write_file(f, 1, u, row, s, args, now, t),
        Call::Fstat(..) => stat_open(f, 1, u, row, s, args, now, t),
        Call::Stty(..) => stty_set(f, 1, u, row, s, args, now, t),
        Call::Gtty(..) => gtty_get(f, 1, u, row, s, args, now, t),
        Call::Sync => sync_all(f, 1, u, row, s, args, now, t),
        Call::Pipe => pipe_new(f, 1, u, row, s, args, now, t),
        _ => {
            close_all(f, u, now, t);
            Answer::Ret { r0: R0, r1: R1 }
        }
    }
}

/// The calls of a name.
fn by_name(
    f: &mut Files,
    u: &mut UArea,
    row: &mut Row,
    s: &mut Whole,
    t: &mut Tape,
    now: u32,
    call: Call,
    args: [u16; 4],
) -> Answer
    requires { (r : Row) (i : Image) → IsSound (handed f.old u.old r i) }
    ensures { IsKept (handed f.old u.old row.old (whole_image s.old)) (handed f.new u.new row.new (whole_image s.new)) }
{
    match call {
        Call::Open(..) => open_file(f, 1, u, row, s, args, now, t),
        Call::Creat(..) => creat_file(f, 1, u, row, s, args, now, t),
        Call::Mknod(..) => mknod_at(f, 1, u, row, s, args, now, t),
        Call::Link(..) | Call::LinkAt(..) => link_file(f, 1, u, row, s, args, now, t),
        Call::Unlink(_) => unlink_file(f, 1, u, row, s, args, now, t),
        Call::Chdir(_) => chdir_to(f, 1, u, row, s, args, now, t),
        Call::Chmod(..) => chmod_to(f, 1, u, row, s, args, now, t),
        Call::Chown(..) => chown_to(f, 1, u, row, s, args, now, t),
        Call::Stat(..) => stat_file(f, 1, u, row, s, args, now, t),
        _ => by_number(f, u, row, s, t, now, call, args),
    }
}

/// What a call answers.
pub fn answer(w: &mut World, call: Call) -> Answer
    requires ready { IsReady w.old.files.table w.old.files.pipes w.old.u.files w.old.u.dir w.old.files.tree.mounts
        w.old.files.tree.nodes.references (counts w.old.files.tree.nodes.store) }
    requires long { length w.old.files.table ≡ 100 }
    requires room { HaveRoom w.old.files.table }
    ensures { IsReady w.new.files.table w.new.files.pipes w.new.u.files w.new.u.dir w.new.files.tree.mounts
        w.new.files.tree.nodes.references (counts w.new.files.tree.nodes.store) }
{
    let args = arguments(&mut w.space, call);
    w.u.r[0] = number(call);
    w.u.r[1] = R1;
    by_name(
        &mut w.files,
        &mut w.u,
        &mut w.row,
        &mut w.space,
        &mut w.tape,
        w.now,
        call,
        args,
    )
}

/// Whether an answer is this one, of a call with this word in R0.
pub fn is(answer: Answer, r0: u16, told: Told) -> bool {
    match told {
        Told::Done => answer == Answer::Ret { r0, r1: R1 },
        Told::Gives(r0) => answer == Answer::Ret { r0, r1: R1 },
        Told::GivesTwo(r0, r1) => answer == Answer::Ret { r0, r1 },
        Told::Fails(errno) => answer == Answer::Fail(errno),
        Told::Waits => {
            answer
                == Answer::Sleep {
                    pri: 10,
                    chan: Chan::Keys,
                }
        }
        Told::WaitsOn(pri, chan) => answer == Answer::Sleep { pri, chan },
        Told::WaitsIn(chan) => answer == Answer::Sleep { pri: 1, chan },
    }
}
