//! Where the bytes of a program lie: `estabur` and `sureg` in Lions' Commentary, and chapter 6 of the PDP-11/40 Processor
//! Handbook. A segment has 8,192 bytes, a click 64.
use crate::images::addresses::Use::{Read, Write};
use crate::tell;
use seg_regs::{Proto, Spot};
use v6_base::Trap::{self, Segment};

/// What is done with the byte at an address.
#[derive(Clone, Copy)]
enum Use {
    Read,
    Write,
}

/// Clicks of text, of data and of stack, and where the bytes at addresses lie then.
type Program = ((u16, u16, u16), &'static [(u16, Use, Result<Spot, Trap>)]);

static PROGRAMS: [Program; 9] = [
    (
        // A text to 8255, so that the data begin in the third segment, at 16384; a stack from 65472 on.
        (129, 1, 1),
        &[
            (0, Read, Ok(Spot::Text(0))),
            (0, Write, Err(Segment)),
            (8255, Read, Ok(Spot::Text(8255))),
            (8255, Write, Err(Segment)),
            (8256, Read, Err(Segment)),
            (8256, Write, Err(Segment)),
            (16383, Read, Err(Segment)),
            (16384, Read, Ok(Spot::Image(0))),
            (16384, Write, Ok(Spot::Image(0))),
            (16447, Read, Ok(Spot::Image(63))),
            (16448, Write, Err(Segment)),
            (65471, Read, Err(Segment)),
            // The stack follows the data in the image, and ends with it.
            (65472, Read, Ok(Spot::Image(64))),
            (65472, Write, Ok(Spot::Image(64))),
            (65535, Write, Ok(Spot::Image(127))),
        ],
    ),
    (
        // No text: the data begin at 0.
        (0, 2, 20),
        &[
            (0, Read, Ok(Spot::Image(0))),
            (0, Write, Ok(Spot::Image(0))),
            (127, Write, Ok(Spot::Image(127))),
            (128, Read, Err(Segment)),
            (64255, Read, Err(Segment)),
            (64256, Read, Ok(Spot::Image(128))),
            (65535, Write, Ok(Spot::Image(1407))),
        ],
    ),
    (
        // A text that fills its segment.
        (128, 1, 0),
        &[
            (8191, Read, Ok(Spot::Text(8191))),
            (8191, Write, Err(Segment)),
            (8192, Write, Ok(Spot::Image(0))),
            (8255, Read, Ok(Spot::Image(63))),
            (8256, Read, Err(Segment)),
            (65535, Read, Err(Segment)),
        ],
    ),
    (
        // One click of text, and all other segments for data.
        (1, 896, 0),
        &[
            (63, Read, Ok(Spot::Text(63))),
            (64, Read, Err(Segment)),
            (8191, Read, Err(Segment)),
            (8192, Read, Ok(Spot::Image(0))),
            (65535, Write, Ok(Spot::Image(57343))),
        ],
    ),
    (
        // Data and stack side by side.
        (0, 896, 128),
        &[
            (57343, Write, Ok(Spot::Image(57343))),
            (57344, Write, Ok(Spot::Image(57344))),
            (65535, Read, Ok(Spot::Image(65535))),
        ],
    ),
    (
        (128, 128, 768),
        &[
            (8191, Read, Ok(Spot::Text(8191))),
            (8192, Write, Ok(Spot::Image(0))),
            (16383, Write, Ok(Spot::Image(8191))),
            (16384, Write, Ok(Spot::Image(8192))),
            (65535, Read, Ok(Spot::Image(57343))),
        ],
    ),
    (
        (1024, 0, 0),
        &[
            (0, Write, Err(Segment)),
            (65535, Read, Ok(Spot::Text(65535))),
            (65535, Write, Err(Segment)),
        ],
    ),
    (
        (0, 0, 1),
        &[
            (0, Read, Err(Segment)),
            (65471, Write, Err(Segment)),
            (65472, Write, Ok(Spot::Image(0))),
        ],
    ),
    (
        (0, 0, 0),
        &[(0, Read, Err(Segment)), (65535, Write, Err(Segment))],
    ),
];

/// The number of the first address of a program that lies elsewhere, from 0 on.
fn first_failure(program: &Program) -> Option<usize> {
    let ((t, d, s), bytes) = *program;
    let proto = match Proto::make(t, d, s, 2048) {
        Ok(proto) => proto,
        Err(_) => return Some(0),
    };
    for (k, (at, access, lies)) in bytes.iter().enumerate() {
        if proto.translate(*at, matches!(*access, Write)) != *lies {
            return Some(k);
        }
    }
    None
}

#[test]
fn bytes_lie_where_they_must(rt: HostRuntime) {
    for (n, program) in PROGRAMS.iter().enumerate() {
        tell::step_in_row(&rt, n, first_failure(program));
    }
}
