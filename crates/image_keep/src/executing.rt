//! One instruction of the process that executes instructions: where it stands in core, or else over its memory that is lent.
ghost use Rattle.std.specs.Prelude.{◌≡◌, ◌-◌, ◌↔◌, IfSome, IsTrue, None, false};
ghost use Rattle.pdp_step.specs.declared.outcome.Outcome.TheVariants.{Call, Next};
ghost use Rattle.pdp_step.specs.Instruction.{instr};
ghost use Rattle.image_keep.specs.Lent.{outside_of};
ghost use Rattle.image_keep.specs.Stepped.{IsStepped, IsSteppedAt};
ghost use Rattle.image_keep.specs.Running.{IsFixed, machine_in, with_machine_in};

use crate::images::Images;
use crate::running::Fixed;
use pdp_decode::Dispatch;
use pdp_step::{Outcome, step};

impl Images {
    /// The process of which this is fixed does one instruction, whatever it comes to: true exactly where that is the next one.
    /// Else `outcome` becomes what it comes to, a system call or a fault. PDP-11/40 Processor Handbook, chapters 3 and 4.
    #[inline(always)]
    pub fn execute(&mut self, fixed: &Fixed, dispatch: &Dispatch, outcome: &mut Outcome) -> bool
        requires { IsFixed self.old.kept fixed.now }
        ensures next { IsTrue result ↔ (instr (machine_in self.old.kept fixed.now.slot)).outcome ≡ Next }
        ensures outcome { result ≡ false → outcome.new ≡ (instr (machine_in self.old.kept fixed.now.slot)).outcome }
        ensures same { IsTrue result → outcome.new ≡ outcome.old }
        ensures kept { self.new.kept ≡ with_machine_in self.old.kept fixed.now.slot (instr (machine_in self.old.kept fixed.now.slot)).machine }
        ensures written { IsStepped self.old self.new fixed.now.slot (instr (machine_in self.old.kept fixed.now.slot)).machine }
        ensures fixed { IsFixed self.new.kept fixed.now }
    {
        if self.execute_near(fixed, dispatch) {
            return true;
        }
        self.execute_apart(fixed, outcome)
    }

    // The same by no handler. It stands out of line, to keep the loop over slots small.
    #[cold]
    #[inline(never)]
    fn execute_apart(&mut self, fixed: &Fixed, outcome: &mut Outcome) -> bool
        requires { IsFixed self.old.kept fixed.now }
        ensures next { IsTrue result ↔ (instr (machine_in self.old.kept fixed.now.slot)).outcome ≡ Next }
        ensures outcome { result ≡ false → outcome.new ≡ (instr (machine_in self.old.kept fixed.now.slot)).outcome }
        ensures same { IsTrue result → outcome.new ≡ outcome.old }
        ensures kept { self.new.kept ≡ with_machine_in self.old.kept fixed.now.slot (instr (machine_in self.old.kept fixed.now.slot)).machine }
        ensures written { IsSteppedAt self.old self.new fixed.now.slot (fixed.now.starts.image - 1024)
            (instr (machine_in self.old.kept fixed.now.slot)).machine }
        ensures fixed { IsFixed self.new.kept fixed.now }
    {
        if let Some(n) = self.call_near(fixed) {
            *outcome = Outcome::Call(n);
            return false;
        }
        self.execute_lent(fixed, outcome)
    }

    // The same over the memory of the process, which is lent for it, with the registers in its u area.
    #[inline(never)]
    fn execute_lent(&mut self, fixed: &Fixed, outcome: &mut Outcome) -> bool
        requires { IsFixed self.old.kept fixed.now }
        ensures next { IsTrue result ↔ (instr (machine_in self.old.kept fixed.now.slot)).outcome ≡ Next }
        ensures outcome { result ≡ false → outcome.new ≡ (instr (machine_in self.old.kept fixed.now.slot)).outcome }
        ensures same { IsTrue result → outcome.new ≡ outcome.old }
        ensures kept { self.new.kept ≡ with_machine_in self.old.kept fixed.now.slot (instr (machine_in self.old.kept fixed.now.slot)).machine }
        ensures written { IsSteppedAt self.old self.new fixed.now.slot (fixed.now.starts.image - 1024)
            (instr (machine_in self.old.kept fixed.now.slot)).machine }
        ensures fixed { IsFixed self.new.kept fixed.now }
    {
        let came = self.step_lent(fixed);
        if came == Outcome::Next {
            return true;
        }
        *outcome = came;
        false
    }

    // What an instruction comes to there.
    #[inline(always)]
    fn step_lent(&mut self, fixed: &Fixed) -> Outcome
        requires { IsFixed self.old.kept fixed.now }
        ensures outcome { result ≡ (instr (machine_in self.old.kept fixed.now.slot)).outcome }
        ensures kept { self.new.kept ≡ with_machine_in self.old.kept fixed.now.slot (instr (machine_in self.old.kept fixed.now.slot)).machine }
        ensures written { IsSteppedAt self.old self.new fixed.now.slot (fixed.now.starts.image - 1024)
            (instr (machine_in self.old.kept fixed.now.slot)).machine }
        ensures fixed { IsFixed self.new.kept fixed.now }
    {
        let mut regs = self.registers_at(fixed);
        let outcome = {
            let mut space = self.space_at(fixed);
            step(&mut regs, &mut space)
        };
        self.set_registers_at(fixed, &regs.r, regs.cc);
        outcome
    }

    // The process of which this is fixed does one instruction where it stands in core, if that is one with a row by its handler
    // which ends so: else nothing has changed.
    #[inline(always)]
    fn execute_near(&mut self, fixed: &Fixed, dispatch: &Dispatch) -> bool
        requires { IsFixed self.old.kept fixed.now }
        ensures outcome { IsTrue result → (instr (machine_in self.old.kept fixed.now.slot)).outcome ≡ Next }
        ensures done { IsTrue result → self.new.kept
            ≡ with_machine_in self.old.kept fixed.now.slot (instr (machine_in self.old.kept fixed.now.slot)).machine }
        ensures kept { result ≡ false → self.new.kept ≡ self.old.kept }
        ensures written { IsTrue result → IsSteppedAt self.old self.new fixed.now.slot (fixed.now.starts.image - 1024)
            (instr (machine_in self.old.kept fixed.now.slot)).machine }
        ensures same { result ≡ false → outside_of self.new fixed.now.slot ≡ outside_of self.old fixed.now.slot }
        ensures fixed { IsFixed self.new.kept fixed.now }
    {
        self.memory.see_bytes();
        self.memory.attempt(&fixed.standing, &fixed.again, dispatch)
    }

    // The process of which this is fixed asks for a system call, where its word is at hand: PC passes the word, and the number
    // is answered. Else nothing has changed. UNIX Programmer's Manual, Sixth Edition, section II, INTRO.
    #[inline(always)]
    fn call_near(&mut self, fixed: &Fixed) -> Option<u8>
        requires { IsFixed self.old.kept fixed.now }
        ensures outcome { IfSome result (λ n. (instr (machine_in self.old.kept fixed.now.slot)).outcome ≡ Call n) }
        ensures done { IfSome result
            (λ n. self.new.kept
            ≡ with_machine_in self.old.kept fixed.now.slot (instr (machine_in self.old.kept fixed.now.slot)).machine) }
        ensures kept { result ≡ None → self.new.kept ≡ self.old.kept }
        ensures written { IfSome result (λ n. IsSteppedAt self.old self.new fixed.now.slot (fixed.now.starts.image - 1024)
            (instr (machine_in self.old.kept fixed.now.slot)).machine) }
        ensures same { result ≡ None → outside_of self.new fixed.now.slot ≡ outside_of self.old fixed.now.slot }
        ensures fixed { IsFixed self.new.kept fixed.now }
    {
        self.memory.see_bytes();
        self.memory.attempt_call(&fixed.standing)
    }
}
