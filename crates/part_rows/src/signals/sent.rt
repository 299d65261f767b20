//! Signals that are sent to a process, and wait for it.
use crate::signals::AREA;
use crate::tell;
use proc_tab::Row;
use sig_core::{due, post};

const PROCESS: Row = Row {
    pid: 7,
    ppid: 1,
    uid: 3,
    sig: 0,
    tty: 1,
};

/// The signal that waits, or 0; the number that is sent; whether it is a signal's; and the signal that waits then.
type Sent = (u8, u16, bool, u8);

static SENT: [Sent; 17] = [
    (0, 0, false, 0),
    (0, 1, true, 1),
    (0, 9, true, 9),
    (0, 19, true, 19),
    (0, 20, false, 0),
    (0, 255, false, 0),
    // Numbers are not cut to a byte: these would be 0 and 2.
    (0, 256, false, 0),
    (0, 258, false, 0),
    (0, 65535, false, 0),
    // The last one counts, also where it is the same.
    (2, 3, true, 3),
    (19, 1, true, 1),
    (3, 3, true, 3),
    (2, 9, true, 9),
    // What is no signal takes nothing away.
    (2, 0, false, 2),
    (2, 20, false, 2),
    // A kill waits on, and what is sent is a signal still.
    (9, 2, true, 9),
    (9, 9, true, 9),
];

fn is_sent(sent: &Sent) -> bool {
    let (waits, number, is_signal, then) = *sent;
    let mut row = PROCESS;
    row.sig = waits;
    let mut after = PROCESS;
    after.sig = then;
    post(&mut row, number) == is_signal && row == after
}

#[test]
fn a_signal_takes_the_place_of_the_one_that_waits(rt: HostRuntime) {
    for (k, sent) in SENT.iter().enumerate() {
        tell::plain_row(&rt, k, is_sent(sent));
    }
}

/// The signal that waits; what the process has asked for at its number, and at all others; and whether it is due.
type Due = (u8, u16, u16, bool);

static DUE: [Due; 16] = [
    // There is no signal 0, whatever stands there.
    (0, 0, 0, false),
    (0, 0o100, 0, false),
    // The default is heeded, and so is a routine.
    (1, 0, 1, true),
    (2, 0, 1, true),
    (2, 0o100, 1, true),
    (2, 0o177776, 1, true),
    (19, 0o100, 1, true),
    // Each odd number ignores it, and not 1 alone.
    (1, 1, 0, false),
    (2, 1, 0, false),
    (2, 3, 0, false),
    (13, 0o177777, 0, false),
    (19, 1, 0, false),
    // A kill is one of them: signal(II) alone keeps its handler at the default.
    (9, 0, 1, true),
    (9, 1, 0, false),
    // Above 19 there is no handler.
    (20, 0, 0, false),
    (255, 0, 0, false),
];

fn is_due(waits: &Due) -> bool {
    let (sig, its, others, heeded) = *waits;
    let mut row = PROCESS;
    row.sig = sig;
    let mut u = AREA;
    u.handlers = [others; 20];
    if sig < 20 {
        u.handlers[usize::from(sig)] = its;
    }
    let wanted = if heeded { Some(sig) } else { None };
    due(&row, &u) == wanted
}

#[test]
fn a_signal_is_due_unless_it_is_ignored(rt: HostRuntime) {
    for (k, waits) in DUE.iter().enumerate() {
        tell::plain_row(&rt, k, is_due(waits));
    }
}
