//! What each file holds where a call of the host fails: each call of a run in turn, where 4,096 bytes go in one call, and the
//! first, the second and the last on each port, where one byte does: docs/manual/commands.md and ports.md.
ghost use Rattle.std.specs.Prelude.{◌<◌};

use crate::faults::{Fault, leaves};
use crate::final_disk::GRAVE;
use crate::log::SHOWN;
use fs_codec::DISK_BYTES;
use run_fixtures::{HI_BYTES, hi_image, host_with};
use std::alloc::{AllocError, Global};
use std::test::Fail;
use v6_port::{InPort, OutPort};
use v6_run::Status;

/// Whether the run leaves what the row tells, where so many bytes go in one call.
fn leaves_by(
    alloc: Global,
    image: &[u8],
    disk: &[u8],
    most: u32,
    row: &Fault,
) -> Result<bool, AllocError>
    requires { 0 < most }
{
    let mut host = host_with(alloc, image, b"run 20\n")?;
    host.chunk(most);
    leaves(alloc, &mut host, disk, row)
}

/// Which of the nineteen pieces that a run shows is written by a call, where each is written by one.
fn piece_of(call: u32) -> usize {
    (call as usize).saturating_sub(18)
}

/// The port of one of these pieces.
fn port_of(piece: usize) -> OutPort {
    match SHOWN.get(piece) {
        Some((port, _)) => *port,
        None => OutPort::Final,
    }
}

/// How many blocks of the disk were written before a call that writes there: each of the 4,000 blocks before the swap area by
/// one, and of the swap area eight by one.
fn blocks_before(call: u32) -> usize {
    let before = (call as usize).saturating_sub(37);
    if before < 4_000 {
        before
    } else {
        4_000 + (before - 4_000) * 8
    }
}

/// What comes of a run whose host fails at this call. The image is opened by call 1, read by nine calls, and once more to its
/// end; the script is opened by call 12, and read by two. Then come the openings of Term, Log and Final, nineteen writes of
/// what is shown, 4,000 of blocks, 109 of the swap area, and the three finishes.
fn fault_at(call: u32) -> Fault {
    let (status, count, blocks) = match call {
        1..=11 => (Status::ReadFault(InPort::Image), 0, 0),
        12..=14 => (Status::ReadFault(InPort::Script), 0, 0),
        15 => (Status::WriteFault(OutPort::Term), 0, 0),
        16 => (Status::WriteFault(OutPort::Log), 0, 0),
        17 => (Status::WriteFault(OutPort::Final), 0, 0),
        18..=36 => {
            let piece = piece_of(call);
            (Status::WriteFault(port_of(piece)), piece, 0)
        }
        37..=4_145 => (Status::WriteFault(OutPort::Final), 19, blocks_before(call)),
        4_146 => (Status::WriteFault(OutPort::Term), 19, 4_872),
        4_147 => (Status::WriteFault(OutPort::Log), 19, 4_872),
        4_148 => (Status::WriteFault(OutPort::Final), 19, 4_872),
        _ => (Status::Done, 19, 4_872),
    };
    (call, status, count, blocks)
}

/// The first of these calls that leaves something else than it must.
fn first_other(alloc: Global, first: u32, end: u32) -> Result<Option<u32>, AllocError> {
    let image = hi_image(alloc, HI_BYTES, &[])?;
    let disk = hi_image(alloc, DISK_BYTES, GRAVE)?;
    for call in first..end {
        if !leaves_by(alloc, &image, &disk, 4_096, &fault_at(call))? {
            return Ok(Some(call));
        }
    }
    Ok(None)
}

#[test]
fn each_call_before_the_disk_fails(rt: HostRuntime) -> Result<(), Fail> {
    let other = first_other(rt.alloc(), 1, 37)?;
    assert!(rt; other.is_none(), "{other:?}");
    Ok(())
}

#[test]
fn each_call_of_the_first_thousand_blocks_fails(rt: HostRuntime) -> Result<(), Fail> {
    let other = first_other(rt.alloc(), 37, 1_037)?;
    assert!(rt; other.is_none(), "{other:?}");
    Ok(())
}

#[test]
fn each_call_of_the_second_thousand_blocks_fails(rt: HostRuntime) -> Result<(), Fail> {
    let other = first_other(rt.alloc(), 1_037, 2_037)?;
    assert!(rt; other.is_none(), "{other:?}");
    Ok(())
}

#[test]
fn each_call_of_the_third_thousand_blocks_fails(rt: HostRuntime) -> Result<(), Fail> {
    let other = first_other(rt.alloc(), 2_037, 3_037)?;
    assert!(rt; other.is_none(), "{other:?}");
    Ok(())
}

#[test]
fn each_call_of_the_fourth_thousand_blocks_fails(rt: HostRuntime) -> Result<(), Fail> {
    let other = first_other(rt.alloc(), 3_037, 4_037)?;
    assert!(rt; other.is_none(), "{other:?}");
    Ok(())
}

#[test]
fn each_call_of_the_swap_area_and_the_finishes_fail(rt: HostRuntime) -> Result<(), Fail> {
    let other = first_other(rt.alloc(), 4_037, 4_150)?;
    assert!(rt; other.is_none(), "{other:?}");
    Ok(())
}

/// One byte a call: the image is opened by call 1, and its 34,304 bytes and its end are read by as many and one more; the
/// script is opened by call 34,307, and has seven bytes. The three openings begin at call 34,316. The first eight lines of the
/// log have 79 bytes, then the terminal's four are written, and the other lines have 67. The disk has 2,494,464 bytes, from
/// call 34,469 on.
const BY_BYTES: [Fault; 16] = [
    (1, Status::ReadFault(InPort::Image), 0, 0),
    (2, Status::ReadFault(InPort::Image), 0, 0),
    (34_306, Status::ReadFault(InPort::Image), 0, 0),
    (34_307, Status::ReadFault(InPort::Script), 0, 0),
    (34_308, Status::ReadFault(InPort::Script), 0, 0),
    (34_315, Status::ReadFault(InPort::Script), 0, 0),
    (34_316, Status::WriteFault(OutPort::Term), 0, 0),
    (34_398, Status::WriteFault(OutPort::Term), 8, 0),
    (2_528_933, Status::WriteFault(OutPort::Term), 19, 4_872),
    (34_317, Status::WriteFault(OutPort::Log), 0, 0),
    (34_319, Status::WriteFault(OutPort::Log), 0, 0),
    (2_528_934, Status::WriteFault(OutPort::Log), 19, 4_872),
    (34_318, Status::WriteFault(OutPort::Final), 0, 0),
    (34_469, Status::WriteFault(OutPort::Final), 19, 0),
    (2_528_935, Status::WriteFault(OutPort::Final), 19, 4_872),
    (2_528_936, Status::Done, 19, 4_872),
];

#[test]
fn first_second_and_last_call_on_each_port_fail_byte_by_byte(rt: HostRuntime) -> Result<(), Fail> {
    let image = hi_image(rt.alloc(), HI_BYTES, &[])?;
    let disk = hi_image(rt.alloc(), DISK_BYTES, GRAVE)?;
    for row in BY_BYTES {
        assert!(rt; leaves_by(rt.alloc(), &image, &disk, 1, &row)?, "{}", row.0);
    }
    Ok(())
}
