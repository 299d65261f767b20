//! One instruction of the process that executes instructions, done where it stands in core.
ghost use Rattle.std.specs.Prelude.{◌≡◌, ◌<◌, ◌≤◌, IsTrue, false};
ghost use Rattle.pdp_decode.specs.Handlers.{Handles};
ghost use Rattle.pdp_decode.specs.declared.instr.Reg.{Reg};
ghost use Rattle.pdp_step.specs.Machine.{with_reg};
ghost use Rattle.image_keep.specs.Standing.{standing_image};
ghost use Rattle.image_keep.specs.Attempted.{IsAtHand, IsRowAt, Attempted, Called};
ghost use Rattle.image_keep.specs.Near.{StandsWith, IsRowDone, standing_machine, around};

use crate::near::processor;
use crate::standing::{Standing, instruction_word, pc_of, reg, set_state, state_at};
use pdp_decode::{Dispatch, Handler};
use pdp_step::{
    Processor, perform, perform_apart, perform_between, perform_bytes, perform_extended,
    perform_stepping,
};

/// The instruction at PC, where the process is at hand, its word has a handler, and all that it reads and writes is there.
/// Else nothing has changed. The places come twice: the compiler forms the address of a field where it is used only as long
/// as few uses do.
#[inline(always)]
pub(crate) fn attempt(
    core: &mut [u8],
    standing: &Standing,
    again: &Standing,
    dispatch: &Dispatch,
) -> bool
    requires at_hand { IsAtHand standing.now core.old }
    requires same { again.now ≡ standing.now }
    ensures { Attempted standing.now core.old core.new result }
{
    let pc = pc_of(core, standing);
    match instruction_word(core, standing, pc) {
        Some(word) => {
            let handler = dispatch.handler(word);
            attempt_row(core, standing, again, handler, pc + 2, word)
        }
        None => false,
    }
}

// The row of a word by its handler.
#[inline(always)]
fn attempt_row(
    core: &mut [u8],
    standing: &Standing,
    again: &Standing,
    handler: Handler,
    pc: usize,
    word: u32,
) -> bool
    requires same { again.now ≡ standing.now }
    requires stands { StandsWith core.old standing.now }
    requires handles { Handles handler word }
    requires word { word < 65536 }
    requires room { pc ≤ 65538 }
    ensures row { IsTrue result → IsRowDone (standing_machine core.old standing.now) pc word (standing_machine core.new standing.now) }
    ensures missed { result ≡ false → standing_machine core.new standing.now ≡ standing_machine core.old standing.now }
    ensures around { around core.new standing.now ≡ around core.old standing.now }
    ensures stands { StandsWith core.new standing.now }
{
    attempt_frequent(core, standing, handler, pc, word)
        || attempt_further(core, again, handler, pc, word)
}

// The same for the most frequent handlers. Each function of rows has one caller: the compiler then puts it there.
#[inline(always)]
fn attempt_frequent(
    core: &mut [u8],
    standing: &Standing,
    handler: Handler,
    pc: usize,
    word: u32,
) -> bool
    requires stands { StandsWith core.old standing.now }
    requires handles { Handles handler word }
    requires word { word < 65536 }
    requires room { pc ≤ 65538 }
    ensures row { IsTrue result → IsRowDone (standing_machine core.old standing.now) pc word (standing_machine core.new standing.now) }
    ensures missed { result ≡ false → standing_machine core.new standing.now ≡ standing_machine core.old standing.now }
    ensures around { around core.new standing.now ≡ around core.old standing.now }
    ensures stands { StandsWith core.new standing.now }
{
    perform(&mut processor(core, standing), handler, pc, word).is_ok()
}

// The same for all others.
#[inline(always)]
fn attempt_further(
    core: &mut [u8],
    standing: &Standing,
    handler: Handler,
    pc: usize,
    word: u32,
) -> bool
    requires stands { StandsWith core.old standing.now }
    requires handles { Handles handler word }
    requires word { word < 65536 }
    requires room { pc ≤ 65538 }
    ensures row { IsTrue result → IsRowDone (standing_machine core.old standing.now) pc word (standing_machine core.new standing.now) }
    ensures missed { result ≡ false → standing_machine core.new standing.now ≡ standing_machine core.old standing.now }
    ensures around { around core.new standing.now ≡ around core.old standing.now }
    ensures stands { StandsWith core.new standing.now }
{
    handler != Handler::Other
        && (attempt_bytes(core, standing, handler, pc, word)
            || attempt_apart(core, standing, handler, pc, word)
            || attempt_between(core, standing, handler, pc, word)
            || attempt_extended(core, standing, handler, pc, word)
            || attempt_stepping(core, standing, handler, pc, word))
}

// The same for those that work on bytes.
#[inline(always)]
fn attempt_bytes(
    core: &mut [u8],
    standing: &Standing,
    handler: Handler,
    pc: usize,
    word: u32,
) -> bool
    requires { IsRowAt standing.now core.old handler pc word }
    ensures row { IsTrue result → IsRowDone (standing_machine core.old standing.now) pc word (standing_machine core.new standing.now) }
    ensures missed { result ≡ false → standing_machine core.new standing.now ≡ standing_machine core.old standing.now }
    ensures around { around core.new standing.now ≡ around core.old standing.now }
    ensures stands { StandsWith core.new standing.now }
{
    perform_bytes(&mut processor(core, standing), handler, pc, word).is_ok()
}

// The same for those that are less frequent.
#[inline(always)]
fn attempt_apart(
    core: &mut [u8],
    standing: &Standing,
    handler: Handler,
    pc: usize,
    word: u32,
) -> bool
    requires { IsRowAt standing.now core.old handler pc word }
    ensures row { IsTrue result → IsRowDone (standing_machine core.old standing.now) pc word (standing_machine core.new standing.now) }
    ensures missed { result ≡ false → standing_machine core.new standing.now ≡ standing_machine core.old standing.now }
    ensures around { around core.new standing.now ≡ around core.old standing.now }
    ensures stands { StandsWith core.new standing.now }
{
    perform_apart(&mut processor(core, standing), handler, pc, word).is_ok()
}

// The same for those with two words in memory.
#[inline(always)]
fn attempt_between(
    core: &mut [u8],
    standing: &Standing,
    handler: Handler,
    pc: usize,
    word: u32,
) -> bool
    requires { IsRowAt standing.now core.old handler pc word }
    ensures row { IsTrue result → IsRowDone (standing_machine core.old standing.now) pc word (standing_machine core.new standing.now) }
    ensures missed { result ≡ false → standing_machine core.new standing.now ≡ standing_machine core.old standing.now }
    ensures around { around core.new standing.now ≡ around core.old standing.now }
    ensures stands { StandsWith core.new standing.now }
{
    perform_between(&mut processor(core, standing), handler, pc, word).is_ok()
}

// The same for MUL, DIV, ASH, ASHC, SXT and the condition codes.
#[inline(always)]
fn attempt_extended(
    core: &mut [u8],
    standing: &Standing,
    handler: Handler,
    pc: usize,
    word: u32,
) -> bool
    requires { IsRowAt standing.now core.old handler pc word }
    ensures row { IsTrue result → IsRowDone (standing_machine core.old standing.now) pc word (standing_machine core.new standing.now) }
    ensures missed { result ≡ false → standing_machine core.new standing.now ≡ standing_machine core.old standing.now }
    ensures around { around core.new standing.now ≡ around core.old standing.now }
    ensures stands { StandsWith core.new standing.now }
{
    perform_extended(&mut processor(core, standing), handler, pc, word).is_ok()
}

// The same for those whose source steps before the destination is located. Where one misses, the registers are put back.
#[inline(always)]
fn attempt_stepping(
    core: &mut [u8],
    standing: &Standing,
    handler: Handler,
    pc: usize,
    word: u32,
) -> bool
    requires { IsRowAt standing.now core.old handler pc word }
    ensures row { IsTrue result → IsRowDone (standing_machine core.old standing.now) pc word (standing_machine core.new standing.now) }
    ensures missed { result ≡ false → standing_machine core.new standing.now ≡ standing_machine core.old standing.now }
    ensures around { around core.new standing.now ≡ around core.old standing.now }
    ensures stands { StandsWith core.new standing.now }
{
    let state = state_at(core, standing.area);
    if step_row(core, standing, handler, pc, word) {
        return true;
    }
    set_state(core, standing.area, &state);
    false
}

// The same with the registers as they were by then.
#[inline(always)]
fn step_row(core: &mut [u8], standing: &Standing, handler: Handler, pc: usize, word: u32) -> bool
    requires { IsRowAt standing.now core.old handler pc word }
    ensures row { IsTrue result → IsRowDone (standing_machine core.old standing.now) pc word (standing_machine core.new standing.now) }
    ensures image { result ≡ false → standing_image core.new standing.now ≡ standing_image core.old standing.now }
    ensures around { around core.new standing.now ≡ around core.old standing.now }
    ensures stands { StandsWith core.new standing.now }
{
    perform_stepping(&mut processor(core, standing), handler, pc, word).is_ok()
}

/// The words of TRAP, whose last six bits are a number: PDP-11/40 Processor Handbook, chapter 4.
const FIRST_TRAP: u32 = 0o104400;

const LAST_TRAP: u32 = 0o104777;

/// The instruction at PC, where the process is at hand and asks for a system call: PC passes its word, and the number of the
/// call is answered. Else nothing has changed.
#[inline(always)]
pub(crate) fn attempt_call(core: &mut [u8], standing: &Standing) -> Option<u8>
    requires { IsAtHand standing.now core.old }
    ensures { Called standing.now core.old core.new result }
{
    let pc = reg(core, standing.area, 7);
    match instruction_word(core, standing, usize::from(pc)) {
        Some(word) if FIRST_TRAP <= word && word <= LAST_TRAP => {
            set_pc(core, standing, pc.wrapping_add(2));
            Some((word % 64) as u8)
        }
        _ => None,
    }
}

// Sets PC.
#[inline(always)]
#[tactic(auto, unfolding(pdp_decode::specs::Decode::reg_of))]
fn set_pc(core: &mut [u8], standing: &Standing, pc: u16)
    requires { StandsWith core.old standing.now }
    ensures machine { standing_machine core.new standing.now ≡ with_reg (standing_machine core.old standing.now) Reg.Pc pc }
    ensures around { around core.new standing.now ≡ around core.old standing.now }
    ensures stands { StandsWith core.new standing.now }
{
    processor(core, standing).set_reg(7, pc);
}
