//! The handlers of all words, at hand.
ghost use Rattle.std.specs.Prelude.{◌≡◌, ◌≢◌, ◌<◌, IfOk};
ghost use Rattle.pdp_decode.specs.declared.handler.Handler.{Handler};
ghost use Rattle.pdp_decode.specs.Table.{IsWordOf};
ghost use Rattle.pdp_decode.specs.Decode.{decode_of};
ghost use Rattle.pdp_decode.specs.Handlers.{Handles, HasHandler, IsHandlerOf, IsDispatch};

use crate::addressing::addressed;
use crate::choices::{
    adc, add, ash, ashc, asl, asr, bic, bis, bit, branch, clr, cmp, codes, com, dec, div, inc, jmp,
    jsr, mov, mul, neg, rol, ror, sbc, sub, swab, sxt, tst, xor,
};
use crate::handler::Handler;
use crate::instr::{Instr, Width};
use crate::reading::decode;
use std::alloc::{AllocError, Global};
use std::marker::Model;

// The handler of an instruction by its word.
fn choose(instr: Instr, word: u16) -> Handler
    requires value { decode_of word ≡ instr }
    requires word { IsWordOf instr word }
    ensures handles { Handles result word }
    ensures known { HasHandler instr → result ≢ Handler.Other }
{
    match instr {
        Instr::Mov(w, s, d) => mov(w, addressed(w, s), addressed(w, d)),
        Instr::Cmp(w, s, d) => cmp(w, addressed(w, s), addressed(w, d)),
        Instr::Bit(w, s, d) => bit(w, addressed(w, s), addressed(w, d)),
        Instr::Bic(w, s, d) => bic(w, addressed(w, s), addressed(w, d)),
        Instr::Bis(w, s, d) => bis(w, addressed(w, s), addressed(w, d)),
        Instr::Add(s, d) => add(addressed(Width::Word, s), addressed(Width::Word, d)),
        Instr::Sub(s, d) => sub(addressed(Width::Word, s), addressed(Width::Word, d)),
        Instr::Clr(w, d) => clr(w, addressed(w, d)),
        Instr::Com(w, d) => com(w, addressed(w, d)),
        Instr::Inc(w, d) => inc(w, addressed(w, d)),
        Instr::Dec(w, d) => dec(w, addressed(w, d)),
        Instr::Neg(w, d) => neg(w, addressed(w, d)),
        Instr::Adc(w, d) => adc(w, addressed(w, d)),
        Instr::Sbc(w, d) => sbc(w, addressed(w, d)),
        Instr::Tst(w, d) => tst(w, addressed(w, d)),
        Instr::Ror(w, d) => ror(w, addressed(w, d)),
        Instr::Rol(w, d) => rol(w, addressed(w, d)),
        Instr::Asr(w, d) => asr(w, addressed(w, d)),
        Instr::Asl(w, d) => asl(w, addressed(w, d)),
        Instr::Swab(d) => swab(addressed(Width::Word, d)),
        Instr::Sxt(d) => sxt(addressed(Width::Word, d)),
        Instr::Mul(_, s) => mul(addressed(Width::Word, s)),
        Instr::Div(_, s) => div(addressed(Width::Word, s)),
        Instr::Ash(_, s) => ash(addressed(Width::Word, s)),
        Instr::Ashc(_, s) => ashc(addressed(Width::Word, s)),
        Instr::Xor(n, d) => xor(n, addressed(Width::Word, d)),
        Instr::Sob(_, _) => Handler::Sob,
        Instr::Branch(condition, _) => branch(condition),
        Instr::Jmp(d) => jmp(addressed(Width::Word, d)),
        Instr::Jsr(_, d) => jsr(addressed(Width::Word, d)),
        Instr::Rts(_) => Handler::Rts,
        Instr::Rti => Handler::Rti,
        Instr::Codes(set, _) => codes(set),
        _ => Handler::Other,
    }
}

// The handler of a word.
fn handler_of(word: u16) -> Handler
    ensures { IsHandlerOf result word }
{
    choose(decode(word), word)
}

/// The handler of each of the 65,536 words.
#[derive(Drop)]
pub struct Dispatch {
    handlers: Vec<Handler>,
}

impl Model for Dispatch {
    ghost use Rattle.std.specs.Prelude.{List};
    ghost use Rattle.pdp_decode.specs.declared.handler.Handler.{Handler};
    ghost use Rattle.pdp_decode.specs.Handlers.{IsDispatch};

    ghost Value = { List Handler };

    ghost view = { λ d. d.handlers.items };

    ghost invariant = { λ d. IsDispatch d.handlers.items };
}

fn all(alloc: Global) -> Result<Vec<Handler>, AllocError>
    ensures { IfOk result (λ v. IsDispatch v.items) }
{
    let mut handlers = Vec::with_capacity(alloc, 65536)?;
    for n in 0..65535u16 {
        handlers.push(handler_of(n))?;
    }
    handlers.push(handler_of(65535))?;
    Ok(handlers)
}

impl Dispatch {
    /// The handlers of all words: it takes 65,536 bytes.
    pub fn new(alloc: Global) -> Result<Dispatch, AllocError> {
        let handlers = all(alloc)?;
        Ok(Dispatch { handlers })
    }

    /// The handler of a word. What it says of the word holds; and it is not `Other` where the instruction works on a register,
    /// with a source that is frequent, nor for a branch.
    #[inline(always)]
    pub fn handler(&self, word: u32) -> Handler
        requires { word < 65536 }
        ensures handles { Handles result word }
        ensures known { HasHandler (decode_of word) → result ≢ Handler.Other }
    {
        self.handlers[word as usize]
    }
}
