//! Files in memory and files of the system behind the ports: docs/manual/ports.md.
ghost use Rattle.std.specs.Prelude.{◌≤◌};

use std::alloc::Global;
use std::fs;
use std::test::Fail;
use v6_port::{FileHost, Host, InPort, MemHost, OutPort};

/// The third call is named as one that fails.
fn file_is_read_in_pieces(alloc: Global) -> Result<bool, Fail> {
    let mut host = MemHost::new(alloc);
    host.add("image", b"abc")?;
    host.fail(3)?;
    host.open_read(InPort::Image, "image")?;
    let mut piece = [0u8; 2];
    let is_first = host.read(InPort::Image, &mut piece)? == 2 && piece == *b"ab";
    let is_failed = host.read(InPort::Image, &mut piece).is_err();
    let is_second = host.read(InPort::Image, &mut piece)? == 1 && piece[0] == b'c';
    let is_end = host.read(InPort::Image, &mut piece)? == 0;
    Ok(is_first && is_failed && is_second && is_end)
}

/// Room for two bytes, and for three more.
fn port_takes_what_it_has_room_for(alloc: Global) -> Result<bool, Fail> {
    let mut host = MemHost::new(alloc);
    host.room(OutPort::Term, "term", 2)?;
    host.room(OutPort::Term, "term", 3)?;
    host.open_write(OutPort::Term, "term")?;
    let first = host.write(OutPort::Term, b"abc")?;
    let second = host.write(OutPort::Term, b"def")?;
    let is_full = host.write(OutPort::Term, b"f").is_err();
    let nothing = host.write(OutPort::Term, b"")?;
    host.finish(OutPort::Term)?;
    let is_written = host.bytes(OutPort::Term) == b"abcde".as_slice();
    Ok((first, second, nothing) == (3, 2, 0) && is_full && is_written)
}

/// The later of two files of one name; a port that has opened the earlier goes on with it.
fn later_file_of_a_name_is_read(alloc: Global) -> Result<bool, Fail> {
    let mut host = MemHost::new(alloc);
    host.add("file", b"ab")?;
    host.open_read(InPort::Image, "file")?;
    host.add("file", b"cd")?;
    host.open_read(InPort::Script, "file")?;
    let mut earlier = [0u8; 2];
    let mut later = [0u8; 2];
    host.read(InPort::Image, &mut earlier)?;
    host.read(InPort::Script, &mut later)?;
    Ok(earlier == *b"ab" && later == *b"cd")
}

/// The name that another port expects.
fn port_takes_its_own_name_alone(alloc: Global) -> Result<bool, Fail> {
    let mut host = MemHost::new(alloc);
    host.room(OutPort::Log, "log", 4)?;
    host.room(OutPort::Term, "term", 4)?;
    Ok(host.open_write(OutPort::Term, "log").is_err())
}

/// At most two bytes go in one call.
fn reads_are_short(alloc: Global) -> Result<bool, Fail> {
    let mut host = MemHost::new(alloc);
    host.add("image", b"abc")?;
    host.chunk(2);
    host.open_read(InPort::Image, "image")?;
    let mut piece = [0u8; 4];
    let count = host.read(InPort::Image, &mut piece)?;
    Ok(count == 2 && piece == *b"ab\0\0")
}

/// The same.
fn writes_are_short(alloc: Global) -> Result<bool, Fail> {
    let mut host = MemHost::new(alloc);
    host.room(OutPort::Term, "term", 4)?;
    host.chunk(2);
    host.open_write(OutPort::Term, "term")?;
    let count = host.write(OutPort::Term, b"abc")?;
    Ok(count == 2 && host.bytes(OutPort::Term) == b"ab".as_slice())
}

/// A line beside the console has a port like others.
fn line_takes_its_bytes(alloc: Global, line: u8) -> Result<bool, Fail>
    requires least { 1 ≤ line }
    requires most { line ≤ 7 }
{
    let mut host = MemHost::new(alloc);
    host.room(OutPort::Line(line), "line", 4)?;
    host.open_write(OutPort::Line(line), "line")?;
    let count = host.write(OutPort::Line(line), b"ab")?;
    let is_written = host.bytes(OutPort::Line(line)) == b"ab".as_slice();
    let is_second = host.bytes(OutPort::Second).is_empty();
    Ok(count == 2 && is_written && is_second && host.bytes(OutPort::Term).is_empty())
}

/// Two ports are open at once.
fn ports_have_their_own_bytes(alloc: Global) -> Result<bool, Fail> {
    let mut host = MemHost::new(alloc);
    host.room(OutPort::Log, "log", 4)?;
    host.room(OutPort::Term, "term", 4)?;
    host.open_write(OutPort::Term, "term")?;
    host.open_write(OutPort::Log, "log")?;
    host.write(OutPort::Term, b"ab")?;
    host.write(OutPort::Log, b"c")?;
    let is_term = host.bytes(OutPort::Term) == b"ab".as_slice();
    let is_log = host.bytes(OutPort::Log) == b"c".as_slice();
    Ok(is_term && is_log)
}

#[test]
fn files_in_memory_obey_the_manual(rt: HostRuntime) -> Result<(), Fail> {
    assert!(rt; file_is_read_in_pieces(rt.alloc())?);
    assert!(rt; port_takes_what_it_has_room_for(rt.alloc())?);
    assert!(rt; later_file_of_a_name_is_read(rt.alloc())?);
    assert!(rt; port_takes_its_own_name_alone(rt.alloc())?);
    assert!(rt; ports_have_their_own_bytes(rt.alloc())?);
    assert!(rt; reads_are_short(rt.alloc())?);
    assert!(rt; writes_are_short(rt.alloc())?);
    assert!(rt; line_takes_its_bytes(rt.alloc(), 1)?);
    assert!(rt; line_takes_its_bytes(rt.alloc(), 7)?);
    Ok(())
}

#[test]
fn file_of_the_system_holds_what_was_written(rt: HostRuntime) -> Result<(), Fail> {
    let mut host = FileHost::new(rt.clone()?);
    host.open_write(OutPort::Final, "final")?;
    let count = host.write(OutPort::Final, b"abc")?;
    host.finish(OutPort::Final)?;
    let is_written = fs::read(&rt, "final")?.as_slice() == b"abc".as_slice();
    host.open_read(InPort::Image, "final")?;
    let mut piece = [0u8; 2];
    let is_first = host.read(InPort::Image, &mut piece)? == 2 && piece == *b"ab";
    let is_second = host.read(InPort::Image, &mut piece)? == 1 && piece[0] == b'c';
    let is_end = host.read(InPort::Image, &mut piece)? == 0;
    fs::remove_file(&rt, "final")?;
    let is_missing = host.open_read(InPort::Image, "final").is_err();
    let reported = host.write(OutPort::Report, b"report\n")?;
    assert!(rt;
        count == 3 && is_written && is_first && is_second && is_end && is_missing && reported == 7
    );
    Ok(())
}
