//! The console: tty(IV), read(II), write(II); what it shows of the bytes that are written to it, and how a read waits.
use crate::system_calls::calls::Call::{Close, Dup, Open, Read, Write};
use crate::system_calls::calls::Told::{Done, Fails, Gives, Waits};
use crate::system_calls::looks::Look::{File, Memory, Pending, Shown, Times};
use crate::system_calls::scenes::Step::{Does, GoesOn, Has, Now, Puts, Types};
use crate::system_calls::scenes::{Scene, failure};
use std::process::Abort;
use v6_base::Errno::{EBADF, EFAULT};

const T: u32 = 0x0005_0006;

const SCENES: [Scene; 5] = [
    Scene {
        name: "what is shown",
        disk: &[],
        crowd: 0,
        steps: &[
            Does(Open(b"/tty\0", 2), Gives(0)),
            Puts(0, b"hello, World\n"),
            Does(Write(0, 0, 13), Gives(13)),
            Has(Shown(b"HELLO, WORLD\r\n", 0)),
            Has(Times(5, T, T)),
            Has(File(0, 5, 0, 1)),
            // A tab goes to the next column that 8 divides, also in the next write.
            Puts(0, b"a\tb"),
            Does(Write(0, 0, 3), Gives(3)),
            Has(Shown(b"A       B", 0)),
            Puts(0, b"\t\t"),
            Does(Write(0, 0, 2), Gives(2)),
            Has(Shown(b"               ", 0)),
            // What a terminal with capitals alone lacks; 04 is dropped; seven bits count.
            Puts(0, b"{}|~`\x04\xe1\x7f\x08"),
            Does(Write(0, 0, 9), Gives(9)),
            Has(Shown(b"\\(\\)\\!\\^\\'A\x7f\x08", 0)),
        ],
    },
    Scene {
        name: "what is shown before a fault stays shown",
        disk: &[],
        crowd: 0,
        steps: &[
            Does(Open(b"/tty\0", 1), Gives(0)),
            Puts(1278, b"hi"),
            Does(Write(0, 1278, 4), Fails(EFAULT)),
            Has(Shown(b"HI", 0)),
            Has(File(0, 5, 0, 1)),
            Has(Times(5, T, T)),
            Puts(0, b"\t"),
            Does(Write(0, 0, 1), Gives(1)),
            Has(Shown(b"      ", 0)),
            Does(Write(0, 2000, 3), Fails(EFAULT)),
            Has(Shown(b"", 0)),
            // Addresses go round.
            Puts(65534, b"ab"),
            Puts(0, b"cd"),
            Does(Write(0, 65534, 4), Gives(4)),
            Has(Shown(b"ABCD", 0)),
        ],
    },
    Scene {
        name: "no byte sets no time",
        disk: &[],
        crowd: 0,
        steps: &[
            Does(Open(b"/cons\0", 2), Gives(0)),
            Does(Write(0, 2000, 0), Gives(0)),
            Has(Times(19, 0, 0)),
            Does(Write(0, 2000, 1), Fails(EFAULT)),
            Has(Times(19, T, T)),
            Has(Shown(b"", 0)),
            Now(9),
            Does(Read(0, 2000, 0), Waits),
            Has(Times(19, T, T)),
            Does(Read(0, 2000, 1), Waits),
            Has(Times(19, 9, T)),
        ],
    },
    Scene {
        // What is kept is the entry of the file, and not its number.
        name: "a read waits for keys",
        disk: &[],
        crowd: 0,
        steps: &[
            Does(Open(b"/f\0", 0), Gives(0)),
            Does(Open(b"/cons\0", 0), Gives(1)),
            Does(Close(0), Done),
            Does(Dup(1), Gives(0)),
            Does(Read(0, 100, 5), Waits),
            Has(Pending(1, [1, 100, 5, 0, 0, 0, 0, 0])),
            Has(File(0, 19, 0, 2)),
            Has(Times(19, T, 0)),
            Has(Memory(100, b"def")),
            Has(Shown(b"", 0)),
            GoesOn(Waits),
            Has(Pending(1, [1, 100, 5, 0, 0, 0, 0, 0])),
            Types(b"a\n"),
            GoesOn(Gives(2)),
            Has(Memory(100, b"a\nf")),
        ],
    },
    Scene {
        name: "a console that is not open that way",
        disk: &[],
        crowd: 0,
        steps: &[
            Does(Open(b"/tty\0", 0), Gives(0)),
            Does(Write(0, 0, 5), Fails(EBADF)),
            Has(Shown(b"", 0)),
            Does(Open(b"/tty\0", 1), Gives(1)),
            Does(Read(1, 0, 5), Fails(EBADF)),
            Does(Open(b"/tty\0", 3), Gives(2)),
            Does(Read(2, 0, 5), Fails(EBADF)),
            Does(Write(2, 0, 5), Fails(EBADF)),
            Has(Pending(0, [0; 8])),
            Has(Shown(b"", 0)),
            Has(Times(5, 0, 0)),
        ],
    },
];

#[test]
fn the_console_shows_and_waits(rt: HostRuntime) {
    assert_eq!(rt; failure(rt.alloc(), &SCENES).expect(&rt, "memory"), None);
}
