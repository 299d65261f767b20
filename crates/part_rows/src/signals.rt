//! Signals as one process gets them, by hand from signal(II), and from psignal, issig and psig of Lions' Commentary, `sig.c`.
mod delivered;
mod sent;

use u_area::UArea;

/// A process with R0 to R5 from 1 to 6, R6 at 0160 and its PC at 042, and the codes Z and C. Each signal has a routine at
/// 0200.
const AREA: UArea = UArea {
    r: [1, 2, 3, 4, 5, 6, 0o160, 0o42],
    cc: 0o5,
    uid: 3,
    gid: 0,
    ruid: 3,
    rgid: 0,
    dir: 1,
    text_size: 0,
    data_size: 2,
    stack_size: 0,
    pending: 0,
    call: [0; 8],
    user_time: 0,
    system_time: 0,
    child_user: 0,
    child_system: 0,
    status: 0,
    handlers: [0o200; 20],
    files: [0; 15],
};
