//! What happens to the table of processes, one thing after another.
use super::Scene;
use super::Step::{Adopts, At, Clears, ClearsAll, Ends, Fills, Forks, Has, Is, Passes, Used};
use proc_tab::Child::{Dead, Living, NoChild};

pub static SLOTS: [Scene; 3] = [
    Scene {
        name: "process 1 is alone",
        steps: &[
            Used(0, false),
            Used(1, true),
            Used(2, false),
            Used(49, false),
            Used(50, false),
            Used(255, false),
            Is(1, 1, 0),
            At(1, Some(1)),
            At(0, None),
            At(2, None),
            Has(1, NoChild),
        ],
    },
    Scene {
        name: "a slot is in use until it is cleared",
        steps: &[
            Forks(1, Some((2, 2))),
            Used(2, true),
            At(2, Some(2)),
            Ends(2),
            Used(2, true),
            At(2, Some(2)),
            Is(2, 2, 1),
            Clears(2),
            Used(2, false),
            At(2, None),
            Used(1, true),
        ],
    },
    Scene {
        name: "the lowest free slot is taken",
        steps: &[
            Forks(1, Some((2, 2))),
            Forks(2, Some((3, 3))),
            Forks(3, Some((4, 4))),
            Is(4, 4, 3),
            Clears(2),
            Clears(3),
            Forks(4, Some((2, 5))),
            Is(2, 5, 4),
            Forks(1, Some((3, 6))),
            Forks(2, Some((5, 7))),
            At(7, Some(5)),
            At(3, None),
        ],
    },
];

pub static PIDS: [Scene; 4] = [
    Scene {
        name: "a pid that was given back is not given at once",
        steps: &[
            Forks(1, Some((2, 2))),
            Clears(2),
            Forks(1, Some((2, 3))),
            Clears(2),
            Passes(10),
            Forks(1, Some((2, 14))),
        ],
    },
    Scene {
        name: "after 32767 comes 1, and those that live are passed over",
        steps: &[
            Forks(1, Some((2, 2))),
            Forks(1, Some((3, 3))),
            Passes(32_763),
            Forks(1, Some((4, 32_767))),
            Forks(1, Some((5, 4))),
            Forks(1, Some((6, 5))),
        ],
    },
    Scene {
        name: "the dead are passed over until their slots are cleared",
        steps: &[
            Forks(1, Some((2, 2))),
            Forks(1, Some((3, 3))),
            Passes(32_763),
            Forks(1, Some((4, 32_767))),
            Forks(1, Some((5, 4))),
            Ends(2),
            Clears(3),
            Passes(32_762),
            Forks(1, Some((3, 3))),
            Clears(2),
            Passes(32_762),
            Forks(1, Some((2, 2))),
        ],
    },
    Scene {
        name: "those of all slots are passed over, the last slot's too",
        steps: &[
            Fills,
            Clears(7),
            // 50 to 32767.
            Passes(32_718),
            Forks(1, Some((7, 7))),
            Clears(7),
            Forks(1, Some((7, 50))),
        ],
    },
];

pub static CHILDREN: [Scene; 6] = [
    Scene {
        name: "the lowest that has ended is told",
        steps: &[
            Has(1, NoChild),
            Forks(1, Some((2, 2))),
            Has(1, Living),
            Forks(1, Some((3, 3))),
            Forks(1, Some((4, 4))),
            Forks(1, Some((5, 5))),
            Has(1, Living),
            Ends(4),
            Has(1, Dead(4)),
            Ends(3),
            Has(1, Dead(3)),
            Ends(5),
            Has(1, Dead(3)),
            Clears(3),
            Has(1, Dead(4)),
            Clears(4),
            Has(1, Dead(5)),
            Clears(5),
            Has(1, Living),
            Clears(2),
            Has(1, NoChild),
        ],
    },
    Scene {
        name: "the lowest slot and not the least pid",
        steps: &[
            Forks(1, Some((2, 2))),
            Forks(1, Some((3, 3))),
            Clears(2),
            Forks(1, Some((2, 4))),
            Ends(3),
            Ends(2),
            Has(1, Dead(2)),
        ],
    },
    Scene {
        name: "each has its own children",
        steps: &[
            Forks(1, Some((2, 2))),
            Forks(2, Some((3, 3))),
            Forks(3, Some((4, 4))),
            Ends(3),
            Has(1, Living),
            Has(2, Dead(3)),
            Has(3, Living),
            Has(4, NoChild),
            Has(0, Living),
            Has(9, NoChild),
        ],
    },
    Scene {
        name: "the child in the last slot has ended, and its brothers live",
        steps: &[Fills, Has(1, Living), Ends(49), Has(1, Dead(49))],
    },
    Scene {
        name: "the child in the last slot lives, and is the only one",
        steps: &[
            Fills,
            ClearsAll(2, 48),
            Has(1, Living),
            Clears(49),
            Has(1, NoChild),
        ],
    },
    Scene {
        name: "the child in the last slot has ended, and is the only one",
        steps: &[Fills, ClearsAll(2, 48), Ends(49), Has(1, Dead(49))],
    },
];

pub static ADOPTIONS: [Scene; 2] = [
    Scene {
        name: "children of one who ends are process 1's, dead ones too",
        steps: &[
            Forks(1, Some((2, 2))),
            Forks(2, Some((3, 3))),
            Forks(2, Some((4, 4))),
            Forks(3, Some((5, 5))),
            Ends(4),
            Ends(2),
            Adopts(2),
            Is(2, 2, 1),
            Is(3, 3, 1),
            Is(4, 4, 1),
            Is(5, 5, 3),
            Has(2, NoChild),
            Has(3, Living),
            Has(1, Dead(2)),
            Clears(2),
            Has(1, Dead(4)),
            Clears(4),
            Has(1, Living),
        ],
    },
    Scene {
        name: "who has no children has none adopted",
        steps: &[
            Forks(1, Some((2, 2))),
            Forks(2, Some((3, 3))),
            Adopts(3),
            Adopts(9),
            Is(1, 1, 0),
            Is(2, 2, 1),
            Is(3, 3, 2),
            Adopts(1),
            Is(1, 1, 0),
            Is(2, 2, 1),
            Used(0, false),
            Forks(3, Some((4, 4))),
        ],
    },
];
