//! The modes of a terminal: `gtty`, `stty` and `sgtty` in Lions' Commentary, `tty.c`.
ghost use Rattle.std.specs.Prelude.{◌≡◌, ◌<◌, ℕ, [], ◌∷◌, IfOk, length, slice_index};
ghost use Rattle.v6_base.specs.Image.{Image};
ghost use Rattle.v6_base.specs.Trace.{Took};
ghost use Rattle.proc_tab.specs.declared.row.Row.{Row};
ghost use Rattle.fs_codec.specs.Bytes.{bytes_of};
ghost use Rattle.fs_codec.specs.Words.{word};
ghost use Rattle.fs_nodes.specs.FileSystem.{SameRest};
ghost use Rattle.tty_line.specs.Said.{with_modes};
ghost use Rattle.lines_eight.specs.Lines.{terminal_at, with_terminal};
ghost use Rattle.lines_eight.specs.Told.{told};
ghost use Rattle.sys_files.specs.Handed.{Handed, handed, node_in};
ghost use Rattle.sys_files.specs.Did.{Did, check};
ghost use Rattle.sys_files.specs.Modes.{terminal_line, of_terminal, words_at, tells_modes, stty_set, gtty_get};
ghost use Rattle.sys_files.specs.Sound.{IsSound};
ghost use Rattle.sys_files.specs.Does.{Does};
ghost use Rattle.sys_files.specs.Entering.{did_with};

use crate::answers::done;
use crate::descriptors::{file_of, open_entry};
use crate::devices::{is_null, line_of};
use crate::files::Files;
use crate::inodes::inode_of;
use crate::status::see_bytes;
use fs_codec::{is_character_device, put_words, word_at};
use fs_nodes::Nodes;
use lines_eight::{Lines, tell_flushed};
use proc_tab::Row;
use u_area::UArea;
use v6_base::{Answer, Errno, Slot, Space, Trace};

/// The line that the file of an inode is, which is referred to. It has to be a terminal.
///
/// # Errors
///
/// `ENOTTY`: it is no character device. `ENODEV`: it is the null device.
fn terminal_line(nodes: &Nodes, lines: &Lines, ino: u16) -> Result<u8, Errno>
    requires referenced { 0 < slice_index nodes.now.references ino }
    ensures line { (h : Handed) → h.lines ≡ lines.now → result ≡ terminal_line h (node_in nodes.now.store ino) }
    ensures there { IfOk result (λ l. l < length lines.now) }
{
    let inode = inode_of(nodes, ino);
    if !is_character_device(inode.mode) {
        return Err(Errno::ENOTTY);
    }
    if is_null(&inode) {
        return Err(Errno::ENODEV);
    }
    Ok(line_of(lines, &inode).unwrap_or(0))
}

/// The line of the terminal that the number in R0 has to name.
///
/// # Errors
///
/// `EBADF`: the number is not open. Else those of `terminal_line`.
fn line_named(f: &Files, u: &UArea) -> Result<u8, Errno>
    requires sound { (row : Row) (image : Image) → IsSound (handed f.now u.now row image) }
    ensures line { (row : Row) (image : Image) (does : ℕ → Did) → of_terminal (handed f.now u.now row image) does
        ≡ check (handed f.now u.now row image) result does }
    ensures there { IfOk result (λ l. l < length f.now.lines) }
{
    let entry = open_entry(f, u, u.r[0])?;
    let file = file_of(f, entry);
    terminal_line(&f.tree.nodes, &f.lines, file.ino)
}

/// The bytes of three words at an even address.
fn words_at<S: Space>(space: &S, at: u16) -> Option<[u8; 6]>
    ensures { (h : Handed) → h.image ≡ S.image space.now → result ≡ words_at h at }
{
    let mut bytes = [0; 6];
    if at % 2 == 1 || !space.copy_in(at, &mut bytes) {
        return None;
    }
    Some(bytes)
}

/// Sets the modes of a line, from the bytes of three words. The bytes that wait go out, what was typed is lost, and who
/// waits is woken.
fn set_modes<T: Trace>(lines: &mut Lines, l: u8, bytes: &[u8; 6], trace: &mut T)
    requires there { l < length lines.old }
    ensures line { lines.new ≡ with_terminal lines.old l
        (with_modes (terminal_at lines.old l) (word bytes.now 0 ∷ word bytes.now 2 ∷ word bytes.now 4 ∷ [])).terminal }
    ensures items { Took (T.taken trace.old)
        (told l (with_modes (terminal_at lines.old l) (word bytes.now 0 ∷ word bytes.now 2 ∷ word bytes.now 4 ∷ [])))
        (T.taken trace.new) }
    ensures frame { T.leads_to trace.old trace.new }
{
    let modes = [word_at(bytes, 0), word_at(bytes, 2), word_at(bytes, 4)];
    let show = lines.set_modes(l, modes, trace);
    tell_flushed(l, show, trace);
}

/// The bytes of three words.
fn bytes_of(modes: [u16; 3]) -> [u8; 6]
    ensures { result ≡ bytes_of modes }
{
    let mut bytes = [0; 6];
    put_words(&mut bytes, 0, &modes);
    see_bytes(&bytes);
    bytes
}

/// Puts the modes of a line to an even address, all three words or none.
fn put_modes<S: Space>(lines: &Lines, l: u8, u: &UArea, space: &mut S, at: u16) -> Answer
    requires there { l < length lines.now }
    ensures did { (h : Handed) → h.lines ≡ lines.now → h.u ≡ u.now → h.image ≡ S.image space.old
        → tells_modes h l at ≡ did_with (record h { image = S.image space.new }) result }
    ensures memory { S.rest space.new ≡ S.rest space.old }
{
    if at % 2 == 1 || !space.copy_out(at, &bytes_of(lines.modes(l))) {
        return Answer::Fail(Errno::EFAULT);
    }
    done(u)
}

/// 31, stty(II): sets the modes of the terminal that the number in R0 names, from three words at an address, `args[0]`: the
/// speeds; the character that erases, in the low byte, and the one that kills; the flags. The bytes that wait go out, and
/// what was typed is lost.
///
/// # Errors
///
/// `EBADF`: the number is not open. `ENOTTY`: it is no character device. `ENODEV`: it is the null device. `EFAULT`: the
/// address is odd, or one of the words cannot be read. Nothing has changed then.
pub fn stty_set<S: Space, T: Trace>(
    f: &mut Files,
    _slot: Slot,
    u: &mut UArea,
    row: &mut Row,
    space: &mut S,
    args: [u16; 4],
    _now: u32,
    trace: &mut T,
) -> Answer
    requires sound { IsSound (handed f.old u.old row.old (S.image space.old)) }
    ensures does { Does (handed f.old u.old row.old (S.image space.old))
        (handed f.new u.new row.new (S.image space.new)) result (T.taken trace.old) (T.taken trace.new)
        (stty_set (handed f.old u.old row.old (S.image space.old)) (slice_index args 0)) }
    ensures frame { T.leads_to trace.old trace.new }
    ensures memory { S.rest space.new ≡ S.rest space.old }
    ensures blocks { SameRest f.old.tree.nodes f.new.tree.nodes }
{
    let line = match line_named(f, u) {
        Ok(line) => line,
        Err(e) => return Answer::Fail(e),
    };
    let Some(bytes) = words_at(space, args[0]) else {
        return Answer::Fail(Errno::EFAULT);
    };
    set_modes(&mut f.lines, line, &bytes, trace);
    done(u)
}

/// 32, gtty(II): tells the modes of the terminal that the number in R0 names, as three words to an address, `args[0]`.
///
/// # Errors
///
/// `EBADF`: the number is not open. `ENOTTY`: it is no character device. `ENODEV`: it is the null device. `EFAULT`: the
/// address is odd, or one of the words cannot be written. None of them is then.
pub fn gtty_get<S: Space, T: Trace>(
    f: &mut Files,
    _slot: Slot,
    u: &mut UArea,
    row: &mut Row,
    space: &mut S,
    args: [u16; 4],
    _now: u32,
    trace: &mut T,
) -> Answer
    requires sound { IsSound (handed f.old u.old row.old (S.image space.old)) }
    ensures does { Does (handed f.old u.old row.old (S.image space.old))
        (handed f.new u.new row.new (S.image space.new)) result (T.taken trace.old) (T.taken trace.new)
        (gtty_get (handed f.old u.old row.old (S.image space.old)) (slice_index args 0)) }
    ensures frame { T.leads_to trace.old trace.new }
    ensures memory { S.rest space.new ≡ S.rest space.old }
    ensures blocks { SameRest f.old.tree.nodes f.new.tree.nodes }
{
    let line = match line_named(f, u) {
        Ok(line) => line,
        Err(e) => return Answer::Fail(e),
    };
    put_modes(&f.lines, line, u, space, args[0])
}
