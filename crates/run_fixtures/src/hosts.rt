//! Hosts in memory, and the one call of `v6`.
ghost use Rattle.std.specs.Prelude.{IfOk};
ghost use Rattle.v6_port.specs.Outside.{IsIdle};
ghost use Rattle.v6_port.specs.Memory.{memory};

use fs_codec::DISK_BYTES;
use std::alloc::{AllocError, Global};
use v6_port::{Host, MemHost, OutPort};
use v6_run::{Status, v6};

/// The words of `run` with good names and a good core size.
pub const RUN: &str = "run image 1200 script term log final";

fn words_of(alloc: Global, text: &str) -> Result<Vec<String>, AllocError> {
    let mut words = Vec::new(alloc);
    for word in text.split_ascii_whitespace() {
        words.push(String::from_str(alloc, word)?)?;
    }
    Ok(words)
}

/// How the command of these words ends over a host.
pub fn end_over<H: Host>(alloc: Global, words: &str, host: &mut H) -> Result<Status, AllocError>
    requires { IsIdle (H.outside host.old) }
{
    let words = words_of(alloc, words)?;
    Ok(v6(alloc, &words, host))
}

/// For how many bytes the ports have room.
#[derive(Clone, Copy)]
pub struct Rooms {
    pub term: usize,
    pub log: usize,
    pub report: usize,
}

/// Room for all that a run shows, and for each report.
pub const ROOMS: Rooms = Rooms {
    term: 4096,
    log: 65_536,
    report: 256,
};

/// A host with an image, a script and an empty file, with so much room, and with room for a disk.
pub fn host_in(
    alloc: Global,
    image: &[u8],
    script: &[u8],
    rooms: Rooms,
) -> Result<MemHost, AllocError>
    ensures { IfOk result (λ host. IsIdle (memory host).outside) }
{
    let mut host = MemHost::new(alloc);
    host.add("image", image)?;
    host.add("script", script)?;
    host.add("empty", b"")?;
    host.room(OutPort::Term, "term", rooms.term)?;
    host.room(OutPort::Log, "log", rooms.log)?;
    host.room(OutPort::Final, "final", DISK_BYTES)?;
    host.room(OutPort::Report, "report", rooms.report)?;
    Ok(host)
}

/// The same, with room for all that is written.
pub fn host_with(alloc: Global, image: &[u8], script: &[u8]) -> Result<MemHost, AllocError>
    ensures { IfOk result (λ host. IsIdle (memory host).outside) }
{
    host_in(alloc, image, script, ROOMS)
}
