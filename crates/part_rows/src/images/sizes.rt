//! Which sizes memory management allows: `estabur` in Lions' Commentary.
use crate::tell;
use seg_regs::{Proto, TooBig};

/// Clicks of text, of data and of stack, and the most that an image may have; and whether they are allowed. A segment is
/// 128 clicks, and an image has a u area of sixteen besides.
static SIZES: [(u16, u16, u16, u16, bool); 18] = [
    (0, 0, 0, 16, true),
    (0, 0, 0, 15, false),
    (0, 1, 20, 37, true),
    (0, 1, 20, 36, false),
    (7, 1, 20, 44, true),
    (7, 1, 20, 43, false),
    // Eight segments, in each way.
    (0, 1024, 0, 2048, true),
    (0, 1025, 0, 2048, false),
    (1024, 0, 0, 2048, true),
    (0, 0, 1024, 2048, true),
    (0, 896, 128, 2048, true),
    (0, 897, 128, 2048, false),
    (0, 896, 129, 2048, false),
    (128, 128, 768, 1040, true),
    (128, 128, 768, 1039, false),
    (129, 128, 768, 2048, false),
    // 1,023 clicks of data with a stack of 20 are nine segments.
    (0, 1023, 20, 2048, false),
    (65535, 65535, 65535, 65535, false),
];

fn size_holds(row: (u16, u16, u16, u16, bool)) -> bool {
    let (t, d, s, max, allowed) = row;
    match Proto::make(t, d, s, max) {
        Ok(proto) => {
            allowed && proto.text_size == t && proto.data_size == d && proto.stack_size == s
        }
        Err(TooBig) => !allowed,
    }
}

#[test]
fn sizes_are_allowed_or_not(rt: HostRuntime) {
    for (n, row) in SIZES.iter().enumerate() {
        tell::plain_row(&rt, n, size_holds(*row));
    }
}
