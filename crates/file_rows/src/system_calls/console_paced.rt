//! A console whose bytes wait to go out: write(II) and tty(IV); `ttwrite` and `ttyoutput` of Lions' Commentary, `tty.c`. A write
//! that finds too many of them waits, and is taken up again later.
use crate::system_calls::calls::Call::{Close, Open, Read, Stty, Write};
use crate::system_calls::calls::Told;
use crate::system_calls::calls::Told::{Done, Fails, Gives, WaitsOn};
use crate::system_calls::looks::Look::{IsOpen, Memory, Modes, Pending, Shown, Times, WentOut};
use crate::system_calls::scenes::Step::{Does, GoesOn, Has, Now, Paces, Posts, Puts, Sends, Types};
use crate::system_calls::scenes::{Scene, failure};
use std::process::Abort;
use v6_base::Chan::{Keys, Show};
use v6_base::Entry::Wake;
use v6_base::Errno::{EFAULT, EINTR};

const T: u32 = 0x0005_0006;

/// Nothing waits.
const NOTHING: [u16; 8] = [0; 8];

/// Too many bytes wait already.
const FULL: Told = WaitsOn(20, Show);

/// Sixty letters, and what is shown of some.
const SIXTY: &[u8] = b"xxxxxxxxxxxxxxxxxxxxxxxxxxxxxxxxxxxxxxxxxxxxxxxxxxxxxxxxxxxx";

const TWENTY_ONE: &[u8] = b"XXXXXXXXXXXXXXXXXXXXX";

const THIRTY_NINE: &[u8] = b"XXXXXXXXXXXXXXXXXXXXXXXXXXXXXXXXXXXXXXX";

const SCENES: [Scene; 9] = [
    Scene {
        // With 51 bytes that wait a write stops, and goes on when 30 are left.
        name: "sixty letters",
        disk: &[],
        crowd: 0,
        steps: &[
            Does(Open(b"/tty\0", 1), Gives(0)),
            Paces(0, true),
            Puts(100, SIXTY),
            Does(Write(0, 100, 60), FULL),
            Has(Pending(2, [0, 100, 60, 51, 0, 0, 0, 0])),
            Has(Times(5, T, T)),
            Has(WentOut(0, b"", &[])),
            Now(9),
            GoesOn(FULL),
            Has(Pending(2, [0, 100, 60, 51, 0, 0, 0, 0])),
            Sends(0, 21, true),
            Has(WentOut(0, TWENTY_ONE, &[])),
            GoesOn(Gives(60)),
            Has(Pending(0, NOTHING)),
            Has(Times(5, T, T)),
            Has(WentOut(0, b"", &[])),
            Sends(0, 9, true),
            Sends(0, 30, true),
            Has(WentOut(0, THIRTY_NINE, &[])),
            Sends(0, 3, false),
            Has(WentOut(0, b"", &[])),
        ],
    },
    Scene {
        name: "a write that waits more than once",
        disk: &[],
        crowd: 0,
        steps: &[
            Does(Open(b"/tty\0", 1), Gives(0)),
            Paces(0, true),
            Puts(100, SIXTY),
            Puts(160, SIXTY),
            Does(Write(0, 100, 120), FULL),
            Has(Pending(2, [0, 100, 120, 51, 0, 0, 0, 0])),
            Sends(0, 21, true),
            GoesOn(FULL),
            Has(Pending(2, [0, 100, 120, 72, 0, 0, 0, 0])),
            Sends(0, 1, false),
            GoesOn(FULL),
            Has(Pending(2, [0, 100, 120, 73, 0, 0, 0, 0])),
            Paces(0, false),
            GoesOn(Gives(120)),
            Has(Pending(0, NOTHING)),
        ],
    },
    Scene {
        name: "the byte at which it waits can't be read",
        disk: &[],
        crowd: 0,
        steps: &[
            Does(Open(b"/tty\0", 1), Gives(0)),
            Paces(0, true),
            Puts(1220, SIXTY),
            Does(Write(0, 1229, 60), Fails(EFAULT)),
            Has(Pending(0, NOTHING)),
            Has(Shown(b"", 0)),
            Does(Write(0, 2000, 1), Fails(EFAULT)),
            // There is room for no byte more.
            Does(Write(0, 1228, 52), FULL),
            Has(Pending(2, [0, 1228, 52, 0, 0, 0, 0, 0])),
            Sends(0, 21, true),
            Has(Shown(TWENTY_ONE, 0)),
        ],
    },
    Scene {
        name: "a byte that can't be read stands behind those for which it waits",
        disk: &[],
        crowd: 0,
        steps: &[
            Does(Open(b"/tty\0", 1), Gives(0)),
            Paces(0, true),
            Puts(1220, SIXTY),
            Does(Write(0, 1224, 60), FULL),
            Has(Pending(2, [0, 1224, 60, 51, 0, 0, 0, 0])),
            Sends(0, 21, true),
            GoesOn(Fails(EFAULT)),
            Has(Pending(0, NOTHING)),
            Sends(0, 5, true),
            Sends(0, 30, true),
        ],
    },
    Scene {
        name: "no byte needs no room",
        disk: &[],
        crowd: 0,
        steps: &[
            Does(Open(b"/tty\0", 1), Gives(0)),
            Paces(0, true),
            Puts(100, SIXTY),
            Does(Write(0, 100, 51), Gives(51)),
            Does(Write(0, 2000, 0), Gives(0)),
            Does(Write(0, 100, 1), FULL),
            Has(Pending(2, [0, 100, 1, 0, 0, 0, 0, 0])),
        ],
    },
    Scene {
        // The bytes that were taken go out all the same.
        name: "a signal ends a write that waits",
        disk: &[],
        crowd: 0,
        steps: &[
            Does(Open(b"/tty\0", 1), Gives(0)),
            Paces(0, true),
            Puts(100, SIXTY),
            Does(Write(0, 100, 60), FULL),
            Posts(2),
            GoesOn(Fails(EINTR)),
            Has(Pending(0, NOTHING)),
            Does(Write(0, 100, 60), Fails(EINTR)),
            Has(Pending(0, NOTHING)),
            Sends(0, 21, true),
            Has(Shown(TWENTY_ONE, 0)),
        ],
    },
    Scene {
        name: "the last close lets what waits go out",
        disk: &[],
        crowd: 0,
        steps: &[
            Does(Open(b"/tty\0", 1), Gives(0)),
            Does(Open(b"/cons\0", 2), Gives(1)),
            Paces(0, true),
            Puts(100, b"hi\n"),
            Does(Write(0, 100, 3), Gives(3)),
            Types(b"ok\n"),
            Does(Close(0), Done),
            Has(WentOut(0, b"", &[])),
            Does(Read(1, 200, 64), Gives(3)),
            Has(Memory(200, b"ok\n")),
            Does(Close(1), Done),
            Has(WentOut(0, b"HI\r\nOK\r\n", &[Wake(Keys), Wake(Show)])),
            Has(IsOpen(false)),
            Does(Open(b"/tty\0", 1), Gives(0)),
            Does(Close(0), Done),
            Has(WentOut(0, b"", &[Wake(Keys)])),
        ],
    },
    Scene {
        name: "stty lets what waits go out as it is",
        disk: &[],
        crowd: 0,
        steps: &[
            Does(Open(b"/tty\0", 1), Gives(0)),
            Paces(0, true),
            Puts(100, b"hi\n"),
            Does(Write(0, 100, 3), Gives(3)),
            Puts(200, b"\0\0#@\0\0"),
            Does(Stty(0, 200), Done),
            Has(WentOut(0, b"HI\r\n", &[Wake(Keys), Wake(Show)])),
            Has(Modes([0, 0x4023, 0])),
            Does(Write(0, 100, 3), Gives(3)),
            Sends(0, 3, true),
            Has(WentOut(0, b"hi\n", &[])),
            Does(Stty(0, 200), Done),
            Has(WentOut(0, b"", &[Wake(Keys)])),
        ],
    },
    Scene {
        name: "a signal of the keys loses what waits",
        disk: &[],
        crowd: 0,
        steps: &[
            Does(Open(b"/tty\0", 1), Gives(0)),
            Paces(0, true),
            Puts(100, SIXTY),
            Does(Write(0, 100, 60), FULL),
            Types(b"\x7f"),
            Sends(0, 1, false),
            GoesOn(Gives(60)),
            Sends(0, 9, true),
            Has(WentOut(0, b"XXXXXXXXX", &[])),
        ],
    },
];

#[test]
fn bytes_wait_to_go_out(rt: HostRuntime) {
    assert_eq!(rt; failure(rt.alloc(), &SCENES).expect(&rt, "memory"), None);
}
