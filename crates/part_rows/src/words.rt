//! All 65,536 words against the octal ranges of the table of instructions, some words with all that is read from them, and
//! which handler some have (PDP-11/40 Processor Handbook, chapters 3 and 4 and appendix B; the ranges stand in
//! docs/manual/instructions.md).
use crate::tell;
use pdp_decode::{Dispatch, Handler, decode};
use std::alloc::Global;
use std::process::Abort;

// The last word of each range, and how its instruction is shown; a range begins after the one before it.
static RANGES: [(u16, &str); 96] = [
    (0o000000, "Illegal"),
    (0o000001, "Wait"),
    (0o000002, "Rti"),
    (0o000003, "SoftTrap(Bpt)"),
    (0o000004, "SoftTrap(Iot)"),
    (0o000005, "Wait"),
    (0o000006, "Rti"),
    (0o000107, "Illegal"),
    (0o000177, "Jmp("),
    (0o000207, "Rts("),
    (0o000237, "Illegal"),
    (0o000257, "Codes(false"),
    (0o000277, "Codes(true"),
    (0o000377, "Swab("),
    (0o000777, "Branch(Always,"),
    (0o001377, "Branch(NotEqual,"),
    (0o001777, "Branch(Equal,"),
    (0o002377, "Branch(GreaterOrEqual,"),
    (0o002777, "Branch(Less,"),
    (0o003377, "Branch(Greater,"),
    (0o003777, "Branch(LessOrEqual,"),
    (0o004007, "Illegal"),
    (0o004077, "Jsr(R0,"),
    (0o004107, "Illegal"),
    (0o004177, "Jsr(R1,"),
    (0o004207, "Illegal"),
    (0o004277, "Jsr(R2,"),
    (0o004307, "Illegal"),
    (0o004377, "Jsr(R3,"),
    (0o004407, "Illegal"),
    (0o004477, "Jsr(R4,"),
    (0o004507, "Illegal"),
    (0o004577, "Jsr(R5,"),
    (0o004607, "Illegal"),
    (0o004677, "Jsr(Sp,"),
    (0o004707, "Illegal"),
    (0o004777, "Jsr(Pc,"),
    (0o005077, "Clr(Word,"),
    (0o005177, "Com(Word,"),
    (0o005277, "Inc(Word,"),
    (0o005377, "Dec(Word,"),
    (0o005477, "Neg(Word,"),
    (0o005577, "Adc(Word,"),
    (0o005677, "Sbc(Word,"),
    (0o005777, "Tst(Word,"),
    (0o006077, "Ror(Word,"),
    (0o006177, "Rol(Word,"),
    (0o006277, "Asr(Word,"),
    (0o006377, "Asl(Word,"),
    (0o006477, "Mark("),
    (0o006677, "Illegal"),
    (0o006777, "Sxt("),
    (0o007777, "Illegal"),
    (0o017777, "Mov(Word,"),
    (0o027777, "Cmp(Word,"),
    (0o037777, "Bit(Word,"),
    (0o047777, "Bic(Word,"),
    (0o057777, "Bis(Word,"),
    (0o067777, "Add("),
    (0o070777, "Mul("),
    (0o071777, "Div("),
    (0o072777, "Ash("),
    (0o073777, "Ashc("),
    (0o074777, "Xor("),
    (0o076777, "Illegal"),
    (0o077777, "Sob("),
    (0o100377, "Branch(Plus,"),
    (0o100777, "Branch(Minus,"),
    (0o101377, "Branch(Higher,"),
    (0o101777, "Branch(LowerOrSame,"),
    (0o102377, "Branch(OverflowClear,"),
    (0o102777, "Branch(OverflowSet,"),
    (0o103377, "Branch(CarryClear,"),
    (0o103777, "Branch(CarrySet,"),
    (0o104377, "Emt"),
    (0o104777, "Sys("),
    (0o105077, "Clr(Byte,"),
    (0o105177, "Com(Byte,"),
    (0o105277, "Inc(Byte,"),
    (0o105377, "Dec(Byte,"),
    (0o105477, "Neg(Byte,"),
    (0o105577, "Adc(Byte,"),
    (0o105677, "Sbc(Byte,"),
    (0o105777, "Tst(Byte,"),
    (0o106077, "Ror(Byte,"),
    (0o106177, "Rol(Byte,"),
    (0o106277, "Asr(Byte,"),
    (0o106377, "Asl(Byte,"),
    (0o107777, "Illegal"),
    (0o117777, "Mov(Byte,"),
    (0o127777, "Cmp(Byte,"),
    (0o137777, "Bit(Byte,"),
    (0o147777, "Bic(Byte,"),
    (0o157777, "Bis(Byte,"),
    (0o167777, "Sub("),
    (0o177777, "Illegal"),
];

// Whether what a word says is shown so, or begins so.
fn holds(alloc: Global, word: u16, text: &str) -> bool {
    match format!(in alloc; "{:?}", decode(word)) {
        Ok(shown) => shown.starts_with(text),
        Err(_) => false,
    }
}

// Each range holds a word at least, and the last ends with the last word.
fn judge(rt: &impl Abort, alloc: Global, ranges: &[(u16, &str)]) {
    let mut first: u16 = 0;
    for (k, row) in ranges.iter().enumerate() {
        tell::plain_row(rt, k, range_holds(alloc, first, row.0, row.1));
        first = row.0.wrapping_add(1);
    }
    tell::plain(rt, first == 0);
}

fn range_holds(alloc: Global, first: u16, last: u16, text: &str) -> bool {
    for word in first..=last {
        if !holds(alloc, word, text) {
            return false;
        }
    }
    first <= last
}

#[test]
fn each_word_is_what_its_range_says(rt: HostRuntime) {
    judge(&rt, rt.alloc(), &RANGES);
}

// MOV (R1)+,@-(R4); CMPB 2(SP),R3; MUL @R5,R2; SOB R1, seven words back; BEQ, two words back; SEC and SEV; TRAP 177.
static WORDS: [(u16, &str); 7] = [
    (
        0o012154,
        "Mov(Word, Operand { mode: Increment, reg: R1 }, Operand { mode: DecrementDeferred, reg: R4 })",
    ),
    (
        0o126603,
        "Cmp(Byte, Operand { mode: Index, reg: Sp }, Operand { mode: Register, reg: R3 })",
    ),
    (0o070215, "Mul(R2, Operand { mode: Deferred, reg: R5 })"),
    (0o077107, "Sob(R1, 7)"),
    (0o001776, "Branch(Equal, 254)"),
    (
        0o000263,
        "Codes(true, Flags { n: false, z: false, v: true, c: true })",
    ),
    (0o104577, "Sys(63)"),
];

fn judge_words(rt: &impl Abort, alloc: Global, rows: &[(u16, &str)]) {
    for (k, row) in rows.iter().enumerate() {
        tell::plain_row(rt, k, holds(alloc, row.0, row.1));
    }
}

#[test]
fn operands_and_numbers_are_read_from_their_digits(rt: HostRuntime) {
    judge_words(&rt, rt.alloc(), &WORDS);
}

// Which handler a word has, by its instruction and its operands' modes.
static HANDLERS: [(u16, Handler); 34] = [
    (0o010102, Handler::MovRR), // MOV R1,R2
    (0o012701, Handler::MovIR), // MOV #5,R1
    (0o013701, Handler::MovAR), // MOV @#700,R1
    (0o016601, Handler::MovXR), // MOV -2(SP),R1
    (0o016701, Handler::MovLR), // MOV A,R1
    (0o012601, Handler::MovPR), // MOV (SP)+,R1
    (0o010146, Handler::MovRM), // MOV R1,-(SP)
    (0o010137, Handler::MovRA), // MOV R1,@#700
    (0o011112, Handler::MovDD), // MOV (R1),(R2)
    (0o010701, Handler::Other), // MOV PC,R1: no register that a handler takes
    (0o112103, Handler::MovbPR), // MOVB (R1)+,R3
    (0o112603, Handler::Other), // MOVB (SP)+,R3: SP steps by two
    (0o020100, Handler::CmpRR), // CMP R1,R0
    (0o060137, Handler::AddRA), // ADD R1,@#62
    (0o162704, Handler::SubIR), // SUB #2,R4
    (0o005001, Handler::ClrR), // CLR R1
    (0o005237, Handler::IncA), // INC @#700
    (0o105201, Handler::IncbR), // INCB R1
    (0o005726, Handler::TstP), // TST (SP)+
    (0o070227, Handler::MulI), // MUL #3,R2
    (0o073027, Handler::AshcI), // ASHC #3,R0
    (0o074102, Handler::XorRR), // XOR R1,R2
    (0o074702, Handler::Other), // XOR PC,R2
    (0o000777, Handler::Always), // BR .
    (0o001003, Handler::NotEqual), // BNE
    (0o077001, Handler::Sob), // SOB R0
    (0o004737, Handler::JsrA), // JSR PC,@#10
    (0o000207, Handler::Rts), // RTS PC
    (0o000257, Handler::ClearCodes), // CCC
    (0o000261, Handler::SetCodes), // SEC
    (0o000002, Handler::Rti), // RTI
    (0o000006, Handler::Rti), // RTT
    (0o104400, Handler::Other), // TRAP 0
    (0o000000, Handler::Other), // HALT
];

fn handler_holds(dispatch: &Dispatch, word: u16, handler: Handler) -> bool {
    dispatch.handler(word as u32) == handler
}

fn judge_handlers(rt: &impl Abort, dispatch: &Dispatch, rows: &[(u16, Handler)]) {
    for (k, row) in rows.iter().enumerate() {
        tell::plain_row(rt, k, handler_holds(dispatch, row.0, row.1));
    }
}

#[test]
fn frequent_words_have_their_handlers(rt: HostRuntime) {
    let dispatch = Dispatch::new(rt.alloc()).expect(&rt, "memory");
    judge_handlers(&rt, &dispatch, &HANDLERS);
}
