//! Terminal lines beside the console: tty(IV), with eight of them. Each has sleepers of its own.
use crate::system_calls::calls::Call::{Close, Open, Read, Stty, Write};
use crate::system_calls::calls::Told::{Done, Fails, Gives, WaitsOn};
use crate::system_calls::looks::Look::{Memory, Pending, Terminal, WentOut};
use crate::system_calls::scenes::Step::{
    Does, EightLines, Fresh, GoesOn, Has, OnLine, Paces, Puts, Sends, Types, TypesOn,
};
use crate::system_calls::scenes::{Scene, failure};
use std::process::Abort;
use v6_base::Chan::{KeysOf, ShowOf};
use v6_base::Entry::Wake;
use v6_base::Errno::{EBADF, ENXIO};

/// `/tty` is line 3, and `/cons` is line 5: the first addresses of inodes 5 and 19, which name a device.
const TWO: [(usize, u16); 2] = [(1160, 3), (1608, 5)];

const SIXTY: &[u8] = b"xxxxxxxxxxxxxxxxxxxxxxxxxxxxxxxxxxxxxxxxxxxxxxxxxxxxxxxxxxxx";

const SCENES: [Scene; 5] = [
    Scene {
        name: "the first line that is opened becomes the terminal",
        disk: &TWO,
        crowd: 0,
        steps: &[
            EightLines,
            Has(Terminal(0)),
            Does(Open(b"/tty\0", 2), Gives(0)),
            Has(Terminal(4)),
            Does(Open(b"/cons\0", 1), Gives(1)),
            Has(Terminal(4)),
            Puts(100, b"hi\n"),
            Does(Write(1, 100, 3), Gives(3)),
            Has(WentOut(5, b"HI\r\n", &[])),
            Does(Write(0, 100, 3), Gives(3)),
            Has(WentOut(3, b"HI\r\n", &[])),
            Fresh,
            OnLine(0),
            Does(Open(b"/cons\0", 1), Gives(0)),
            Has(Terminal(6)),
        ],
    },
    Scene {
        name: "a read waits for keys of its line",
        disk: &TWO,
        crowd: 0,
        steps: &[
            EightLines,
            Does(Open(b"/cons\0", 0), Gives(0)),
            Does(Open(b"/tty\0", 0), Gives(1)),
            Does(Read(1, 200, 64), WaitsOn(10, KeysOf(3))),
            Has(Pending(1, [1, 200, 64, 0, 0, 0, 0, 0])),
            Types(b"no\n"),
            TypesOn(5, b"cd\n"),
            Has(WentOut(5, b"CD\r\n", &[])),
            GoesOn(WaitsOn(10, KeysOf(3))),
            TypesOn(3, b"ab\n"),
            Has(WentOut(3, b"AB\r\n", &[])),
            GoesOn(Gives(3)),
            Has(Memory(200, b"ab\n")),
            Does(Read(0, 200, 64), Gives(3)),
            Has(Memory(200, b"cd\n")),
            Does(Read(0, 200, 64), WaitsOn(10, KeysOf(5))),
        ],
    },
    Scene {
        name: "a write waits for room on its line",
        disk: &TWO,
        crowd: 0,
        steps: &[
            EightLines,
            Does(Open(b"/tty\0", 1), Gives(0)),
            Does(Open(b"/cons\0", 1), Gives(1)),
            Paces(3, true),
            Puts(100, SIXTY),
            Does(Write(0, 100, 60), WaitsOn(20, ShowOf(3))),
            Has(Pending(2, [0, 100, 60, 51, 0, 0, 0, 0])),
            Has(WentOut(3, b"", &[])),
            Sends(5, 1, false),
            Sends(3, 21, true),
            GoesOn(Gives(60)),
            Has(WentOut(3, b"XXXXXXXXXXXXXXXXXXXXX", &[])),
            Sends(3, 9, true),
            Sends(3, 28, false),
            Has(WentOut(3, b"XXXXXXXXXXXXXXXXXXXXXXXXXXXXXXXXXXXXX", &[])),
            Does(Close(0), Done),
            Has(WentOut(3, b"XX", &[Wake(KeysOf(3)), Wake(ShowOf(3))])),
            Does(Close(1), Done),
            Has(WentOut(5, b"", &[Wake(KeysOf(5))])),
        ],
    },
    Scene {
        name: "stty is of its line",
        disk: &TWO,
        crowd: 0,
        steps: &[
            EightLines,
            Does(Open(b"/tty\0", 1), Gives(0)),
            Does(Open(b"/cons\0", 1), Gives(1)),
            Puts(100, b"hi"),
            Puts(200, b"\0\0#@\0\0"),
            Does(Stty(1, 200), Done),
            Has(WentOut(5, b"", &[Wake(KeysOf(5))])),
            Does(Write(0, 100, 2), Gives(2)),
            Has(WentOut(3, b"HI", &[])),
            Does(Write(1, 100, 2), Gives(2)),
            Has(WentOut(5, b"hi", &[])),
        ],
    },
    Scene {
        name: "a line that isn't there",
        disk: &[(1160, 1), (1608, 8)],
        crowd: 0,
        steps: &[
            Does(Open(b"/tty\0", 1), Fails(ENXIO)),
            Does(Write(0, 100, 3), Fails(EBADF)),
            Has(Terminal(0)),
            EightLines,
            Does(Open(b"/tty\0", 1), Gives(0)),
            Has(Terminal(2)),
            Does(Open(b"/cons\0", 1), Fails(ENXIO)),
            Has(WentOut(0, b"", &[])),
        ],
    },
];

#[test]
fn each_line_has_its_own_sleepers(rt: HostRuntime) {
    assert_eq!(rt; failure(rt.alloc(), &SCENES).expect(&rt, "memory"), None);
}
