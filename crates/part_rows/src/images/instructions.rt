//! Instructions that processes do where they stand, one at a time, with what they come to: the PDP-11/40 Processor Handbook,
//! chapters 3 and 4, and the UNIX Programmer's Manual, section II.
use crate::images::scenes::Step::{Executes, Forks, Has, Loads, Makes, Puts};
use crate::images::scenes::{Scene, judge};
use pdp_step::Kind::{Illegal, Segment};
use pdp_step::Outcome::{Call, Fault, Next};
use v6_base::Place::{Core, Swap};

static INSTRUCTIONS: [Scene; 4] = [
    Scene {
        // MOV #123,@#100; INC @#100; TRAP 24. Slot 1 has clicks 1 to 19, and slot 2 clicks 20 to 38: its u area begins at byte
        // 1,216, with R7 at 1,230, its data at 2,240.
        name: "a process in core",
        core: 64,
        steps: &[
            Makes(1, 2, 1, Some(Core(1))),
            Puts(1, 0, [0o337, 0o025, 0o123, 0], true),
            Puts(1, 4, [0o100, 0, 0o237, 0o012], true),
            Puts(1, 8, [0o100, 0, 0o24, 0o211], true),
            Forks(1, 2, Some(Core(20))),
            Executes(2, Next),
            Loads(2, 0o100, Ok(0o123)),
            Has(false, 1230, 6),
            Has(false, 2304, 0o123),
            Executes(2, Next),
            Loads(2, 0o100, Ok(0o124)),
            Has(false, 1230, 10),
            // A trap is for the kernel.
            Executes(2, Call(0o24)),
            Loads(2, 0o100, Ok(0o124)),
            Has(false, 1230, 12),
            // The parent has done nothing.
            Loads(1, 0o100, Ok(0)),
            Has(false, 14, 0),
            Executes(1, Next),
            Loads(1, 0o100, Ok(0o123)),
            Has(false, 14, 6),
        ],
    },
    Scene {
        // MOV PC,R1; MOV #123,-(SP); a word that is no instruction. R1 is at byte 2 of the u area, R6 at 12 and R7 at 14. R6 is
        // 0, and the byte at the address 0177776 is the 63rd of the stack, byte 1,214 of core.
        name: "a register that is the program counter, a push, and faults",
        core: 64,
        steps: &[
            Makes(1, 2, 1, Some(Core(1))),
            Puts(1, 0, [0o301, 0o021, 0o346, 0o025], true),
            Puts(1, 4, [0o123, 0, 0o7, 0], true),
            Executes(1, Next),
            Has(false, 2, 2),
            Has(false, 14, 2),
            Executes(1, Next),
            Has(false, 12, 0o376),
            Has(false, 13, 0o377),
            Has(false, 14, 6),
            Has(false, 1214, 0o123),
            Executes(1, Fault(Illegal(7))),
            Has(false, 14, 8),
            // TST @#40000, where nothing is: nothing has changed.
            Puts(1, 8, [0o337, 0o013, 0, 0o100], true),
            Executes(1, Fault(Segment { sp: 0o177776 })),
            Has(false, 14, 8),
        ],
    },
    Scene {
        // MOV PC,-(SP); ADD, SUB PC,R1; TST PC; CMP, BIS, BIC, BIT PC,R1; RTI. The codes are at byte 16. RTI takes PC from where
        // the first has put it, and the codes from the word behind, which is the first, at address 0.
        name: "the program counter as a source, and a return",
        core: 64,
        steps: &[
            Makes(1, 2, 1, Some(Core(1))),
            Puts(1, 0, [0o346, 0o021, 0o301, 0o141], true),
            Puts(1, 4, [0o301, 0o341, 0o307, 0o013], true),
            Puts(1, 8, [0o301, 0o041, 0o301, 0o121], true),
            Puts(1, 12, [0o301, 0o101, 0o301, 0o061], true),
            Puts(1, 16, [2, 0, 0, 0], true),
            Executes(1, Next),
            Has(false, 12, 0o376),
            Has(false, 13, 0o377),
            Has(false, 14, 2),
            Has(false, 16, 0),
            Loads(1, 0o177776, Ok(2)),
            Executes(1, Next),
            Has(false, 2, 4),
            Has(false, 3, 0),
            Has(false, 14, 4),
            Has(false, 16, 0),
            // 4 less 6
            Executes(1, Next),
            Has(false, 2, 0o376),
            Has(false, 3, 0o377),
            Has(false, 14, 6),
            Has(false, 16, 0o11),
            Executes(1, Next),
            Has(false, 14, 8),
            Has(false, 16, 0),
            // 10 less -2 borrows
            Executes(1, Next),
            Has(false, 2, 0o376),
            Has(false, 14, 10),
            Has(false, 16, 1),
            // 177776 has all bits of 14
            Executes(1, Next),
            Has(false, 2, 0o376),
            Has(false, 14, 12),
            Has(false, 16, 0o11),
            // those of 16 go
            Executes(1, Next),
            Has(false, 2, 0o360),
            Has(false, 3, 0o377),
            Has(false, 14, 14),
            Has(false, 16, 0o11),
            Executes(1, Next),
            Has(false, 2, 0o360),
            Has(false, 14, 16),
            Has(false, 16, 1),
            Executes(1, Next),
            Has(false, 12, 2),
            Has(false, 13, 0),
            Has(false, 14, 2),
            Has(false, 16, 6),
        ],
    },
    Scene {
        // MOV #123,@#100, and TRAP 24. Slots 2 and 3 stand in the swap area, and do the same.
        name: "a process in the swap area",
        core: 64,
        steps: &[
            Makes(1, 20, 20, Some(Core(1))),
            Makes(2, 2, 1, Some(Swap(4000))),
            Puts(2, 0, [0o337, 0o025, 0o123, 0], true),
            Puts(2, 4, [0o100, 0, 0, 0], true),
            Executes(2, Next),
            Loads(2, 0o100, Ok(0o123)),
            Has(true, 14, 6),
            Has(true, 1088, 0o123),
            Makes(3, 2, 1, Some(Swap(4003))),
            Puts(3, 0, [0o24, 0o211, 0, 0], true),
            Executes(3, Call(0o24)),
            Has(true, 1550, 2),
        ],
    },
];

#[test]
fn instructions_are_done_where_a_process_stands(rt: HostRuntime) {
    judge(&rt, rt.alloc(), &INSTRUCTIONS);
}
