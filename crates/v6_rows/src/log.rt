//! The log that a run writes beside the terminal's bytes, one byte a call, into little room, and under an unknown name:
//! docs/manual/log.md and commands.md.
use run_fixtures::{
    HI_BYTES, OneByte, ROOMS, RUN, Rooms, end_over, hi_image, host_in, host_with, is_front,
};
use std::alloc::{AllocError, Global};
use std::test::Fail;
use v6_port::OutPort;
use v6_run::Status;

/// What the run of `examples/hi` shows, one thing after another: lines of the log, and bytes of the terminal. The exec gives
/// back the seventeen clicks with which a system begins and takes 37, of its area, one of data and twenty of stack. The open,
/// the write and the exit are calls.
pub const SHOWN: [(OutPort, &[u8]); 19] = [
    (OutPort::Log, b"boot 1200 0\n"),
    (OutPort::Log, b"sleep 0 -100 runout\n"),
    (OutPort::Log, b"go 1\n"),
    (OutPort::Log, b"bare 1\n"),
    (OutPort::Log, b"image 1 37 at 1\n"),
    (OutPort::Log, b"trap 1\n"),
    (OutPort::Log, b"go 1\n"),
    (OutPort::Log, b"trap 1\n"),
    (OutPort::Term, b"H"),
    (OutPort::Term, b"I"),
    (OutPort::Term, b"\r"),
    (OutPort::Term, b"\n"),
    (OutPort::Log, b"trap 1\n"),
    (OutPort::Log, b"wake keys\n"),
    (OutPort::Log, b"exit 1 swap 4000\n"),
    (OutPort::Log, b"wake wait.1\n"),
    (OutPort::Log, b"wake wait.0\n"),
    (OutPort::Log, b"idle\n"),
    (OutPort::Log, b"end\n"),
];

/// What a port has got of the first so many of them.
pub fn shown_on(alloc: Global, port: OutPort, count: usize) -> Result<Vec<u8>, AllocError> {
    let mut bytes = Vec::new(alloc);
    for (other, piece) in SHOWN.iter().take(count) {
        if *other == port {
            bytes.extend_from_slice(piece)?;
        }
    }
    Ok(bytes)
}

#[test]
fn lines_go_out_one_byte_a_call(rt: HostRuntime) -> Result<(), Fail> {
    let image = hi_image(rt.alloc(), HI_BYTES, &[])?;
    let mut host = OneByte {
        host: host_with(rt.alloc(), &image, b"run 20\n")?,
    };
    let status = end_over(rt.alloc(), RUN, &mut host)?;
    let log = shown_on(rt.alloc(), OutPort::Log, 19)?;
    let is_shown = host.host.bytes(OutPort::Term) == b"HI\r\n".as_slice();
    let is_logged = host.host.bytes(OutPort::Log) == log.as_slice();
    assert!(rt; status == Status::Done && is_shown && is_logged);
    Ok(())
}

/// For how many bytes Term and Log have room, which of them fails, and how many bytes each has got then. The second line of
/// the log ends with its byte 32, the eighth, which is the last before the terminal's bytes, with its byte 79. A write takes
/// what there is room for, so a line may be cut in the middle, and nothing more goes out on either port.
const SMALL_ROOMS: [(usize, usize, OutPort, usize, usize); 7] = [
    (4096, 0, OutPort::Log, 0, 0),
    (4096, 5, OutPort::Log, 0, 5),
    (4096, 32, OutPort::Log, 0, 32),
    (4096, 82, OutPort::Log, 4, 82),
    (0, 65_536, OutPort::Term, 0, 79),
    (2, 65_536, OutPort::Term, 2, 79),
    (4, 79, OutPort::Log, 4, 79),
];

fn stops_at(
    alloc: Global,
    rooms: Rooms,
    port: OutPort,
    shown: usize,
    logged: usize,
) -> Result<bool, AllocError> {
    let image = hi_image(alloc, HI_BYTES, &[])?;
    let mut host = host_in(alloc, &image, b"run 20\n", rooms)?;
    let status = end_over(alloc, RUN, &mut host)?;
    let term = shown_on(alloc, OutPort::Term, 19)?;
    let log = shown_on(alloc, OutPort::Log, 19)?;
    Ok(
        status == Status::WriteFault(port)
            && is_front(host.bytes(OutPort::Term), &term, shown)
            && is_front(host.bytes(OutPort::Log), &log, logged)
            && host.bytes(OutPort::Final).is_empty(),
    )
}

#[test]
fn full_port_cuts_both(rt: HostRuntime) -> Result<(), Fail> {
    for (term, log, port, shown, logged) in SMALL_ROOMS {
        let rooms = Rooms { term, log, ..ROOMS };
        assert!(rt;
            stops_at(rt.alloc(), rooms, port, shown, logged)?,
            "{term}, {log}"
        );
    }
    Ok(())
}

#[test]
fn unknown_name_of_the_log_is_a_write_fault(rt: HostRuntime) -> Result<(), Fail> {
    let image = hi_image(rt.alloc(), HI_BYTES, &[])?;
    let mut host = host_with(rt.alloc(), &image, b"run 20\n")?;
    let words = "run image 1200 script term other final";
    let status = end_over(rt.alloc(), words, &mut host)?;
    let is_unwritten = host.bytes(OutPort::Term).is_empty()
        && host.bytes(OutPort::Log).is_empty()
        && host.bytes(OutPort::Final).is_empty();
    let report = b"write fault: log\n".as_slice();
    assert!(rt;
        status == Status::WriteFault(OutPort::Log)
            && is_unwritten
            && host.bytes(OutPort::Report) == report
    );
    Ok(())
}
