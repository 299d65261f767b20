//! Four bytes that are copied into an image and out of it: `copyin` and `copyout` of `m40.s` in Lions' Commentary, and INTRO(II),
//! EFAULT. Addresses wrap round: 0 is behind 65,535. Where one of the bytes has no place, none moves.
use crate::images::scenes::Step::{Gets, Loads, Makes, Puts};
use crate::images::scenes::{Scene, judge};
use v6_base::Place::{Core, Swap};

const ZEROS: Option<[u8; 4]> = Some([0; 4]);

static COPIES: [Scene; 5] = [
    // Data up to 57343, which are seven segments, and a stack of one from there on.
    Scene {
        name: "no gap, in core",
        core: 1200,
        steps: &[
            Makes(1, 896, 128, Some(Core(1))),
            Puts(1, 57342, [1, 2, 3, 4], true),
            Loads(1, 57342, Ok(1)),
            Loads(1, 57343, Ok(2)),
            Loads(1, 57344, Ok(3)),
            Loads(1, 57345, Ok(4)),
            Gets(1, 57341, Some([0, 1, 2, 3])),
            Gets(1, 57344, Some([3, 4, 0, 0])),
            Puts(1, 65534, [5, 6, 7, 8], true),
            Loads(1, 65534, Ok(5)),
            Loads(1, 65535, Ok(6)),
            Loads(1, 0, Ok(7)),
            Loads(1, 1, Ok(8)),
            Gets(1, 65533, Some([0, 5, 6, 7])),
            Gets(1, 65535, Some([6, 7, 8, 0])),
        ],
    },
    Scene {
        name: "no gap, in the swap area",
        core: 1200,
        steps: &[
            Makes(1, 896, 128, Some(Core(1))),
            Makes(2, 896, 128, Some(Swap(4000))),
            Puts(2, 57341, [1, 2, 3, 4], true),
            Loads(2, 57343, Ok(3)),
            Loads(2, 57344, Ok(4)),
            Gets(2, 57343, Some([3, 4, 0, 0])),
            Puts(2, 65535, [5, 6, 7, 8], true),
            Loads(2, 65535, Ok(5)),
            Loads(2, 0, Ok(6)),
            Loads(2, 2, Ok(8)),
            Gets(2, 65534, Some([0, 5, 6, 7])),
            Gets(1, 57342, ZEROS),
            Gets(1, 65534, ZEROS),
        ],
    },
    // Data up to 63, and a stack from 65472 on, beside images of others.
    Scene {
        name: "a gap, in core",
        core: 64,
        steps: &[
            Makes(1, 1, 1, Some(Core(1))),
            Makes(2, 1, 1, Some(Core(19))),
            Makes(3, 1, 1, Some(Core(37))),
            Puts(2, 62, [1, 2, 3, 4], false),
            Gets(2, 60, ZEROS),
            Gets(2, 61, None),
            Gets(2, 62, None),
            Gets(2, 64, None),
            Puts(2, 60, [1, 2, 3, 4], true),
            Gets(2, 60, Some([1, 2, 3, 4])),
            Puts(2, 65470, [5, 6, 7, 8], false),
            Gets(2, 65472, ZEROS),
            Gets(2, 65470, None),
            Gets(2, 65471, None),
            Puts(2, 65533, [5, 6, 7, 8], true),
            Gets(2, 65532, Some([0, 5, 6, 7])),
            Gets(2, 0, Some([8, 0, 0, 0])),
            Gets(2, 65534, Some([6, 7, 8, 0])),
            Gets(1, 60, ZEROS),
            Gets(1, 65472, ZEROS),
            Gets(1, 65534, ZEROS),
            Gets(3, 60, ZEROS),
            Gets(3, 65472, ZEROS),
            Gets(3, 65534, ZEROS),
        ],
    },
    Scene {
        name: "a gap, in the swap area",
        core: 64,
        steps: &[
            Makes(1, 1, 47, Some(Core(1))),
            Makes(2, 1, 1, Some(Swap(4000))),
            Makes(3, 1, 1, Some(Swap(4003))),
            Puts(2, 63, [1, 2, 3, 4], false),
            Loads(2, 63, Ok(0)),
            Gets(2, 63, None),
            Puts(2, 65469, [5, 6, 7, 8], false),
            Loads(2, 65472, Ok(0)),
            Gets(2, 65469, None),
            Puts(2, 65534, [5, 6, 7, 8], true),
            Gets(2, 65534, Some([5, 6, 7, 8])),
            Gets(2, 0, Some([7, 8, 0, 0])),
            Gets(3, 0, ZEROS),
            Gets(3, 65532, ZEROS),
        ],
    },
    Scene {
        name: "a stack alone, and data alone",
        core: 64,
        steps: &[
            Makes(1, 0, 1, Some(Core(1))),
            Puts(1, 65534, [1, 2, 3, 4], false),
            Gets(1, 65532, ZEROS),
            Gets(1, 65533, None),
            Puts(1, 65532, [1, 2, 3, 4], true),
            Gets(1, 65532, Some([1, 2, 3, 4])),
            Makes(2, 1, 0, Some(Core(18))),
            Puts(2, 65535, [1, 2, 3, 4], false),
            Gets(2, 0, ZEROS),
            Puts(2, 61, [1, 2, 3, 4], false),
            Gets(2, 60, ZEROS),
        ],
    },
];

#[test]
fn copies_go_over_an_edge_or_not_at_all(rt: HostRuntime) {
    judge(&rt, rt.alloc(), &COPIES);
}
