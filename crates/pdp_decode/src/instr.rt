//! What an instruction word says.

/// Whether an instruction works on words or on bytes.
#[derive(Clone, Copy, Debug, PartialEq, Eq)]
pub enum Width {
    Word,
    Byte,
}

/// How an operand is found from its register (handbook, section 3.2 to 3.5).
#[derive(Clone, Copy, Debug, PartialEq, Eq)]
pub enum Mode {
    /// `R`: the register itself.
    Register,
    /// `(R)`: at the address in the register.
    Deferred,
    /// `(R)+`: the same, and then the register grows.
    Increment,
    /// `@(R)+`: at the address that the word there holds.
    IncrementDeferred,
    /// `-(R)`: the register shrinks first.
    Decrement,
    /// `@-(R)`.
    DecrementDeferred,
    /// `X(R)`: at the register plus the next word of the program.
    Index,
    /// `@X(R)`.
    IndexDeferred,
}

/// One of the eight registers; R6 is the stack pointer, R7 the program counter.
#[derive(Clone, Copy, Debug, PartialEq, Eq)]
pub enum Reg {
    R0,
    R1,
    R2,
    R3,
    R4,
    R5,
    Sp,
    Pc,
}

/// An operand's six bits: a mode and a register.
#[derive(Clone, Copy, Debug, PartialEq, Eq)]
pub struct Operand {
    pub mode: Mode,
    pub reg: Reg,
}

/// When a branch is taken: BR, BNE, BEQ, BGE, BLT, BGT, BLE, BPL, BMI, BHI, BLOS, BVC, BVS, BCC, BCS.
#[derive(Clone, Copy, Debug, PartialEq, Eq)]
pub enum Condition {
    Always,
    NotEqual,
    Equal,
    GreaterOrEqual,
    Less,
    Greater,
    LessOrEqual,
    Plus,
    Minus,
    Higher,
    LowerOrSame,
    OverflowClear,
    OverflowSet,
    CarryClear,
    CarrySet,
}

/// Some of the four condition codes.
#[derive(Clone, Copy, Debug, PartialEq, Eq)]
pub struct Flags {
    pub n: bool,
    pub z: bool,
    pub v: bool,
    pub c: bool,
}

/// The two trap instructions that carry no number.
#[derive(Clone, Copy, Debug, PartialEq, Eq)]
pub enum SoftTrap {
    /// The breakpoint trap.
    Bpt,
    /// The input/output trap.
    Iot,
}

/// An instruction, one variant for each row of the table of instructions.
///
/// The operands stand in the order of the word: a source before a destination.
#[derive(Clone, Copy, Debug, PartialEq, Eq)]
pub enum Instr {
    Mov(Width, Operand, Operand),
    Cmp(Width, Operand, Operand),
    Bit(Width, Operand, Operand),
    Bic(Width, Operand, Operand),
    Bis(Width, Operand, Operand),
    Add(Operand, Operand),
    Sub(Operand, Operand),
    Clr(Width, Operand),
    Com(Width, Operand),
    Inc(Width, Operand),
    Dec(Width, Operand),
    Neg(Width, Operand),
    Adc(Width, Operand),
    Sbc(Width, Operand),
    Tst(Width, Operand),
    Ror(Width, Operand),
    Rol(Width, Operand),
    Asr(Width, Operand),
    Asl(Width, Operand),
    Swab(Operand),
    Sxt(Operand),
    Mul(Reg, Operand),
    Div(Reg, Operand),
    Ash(Reg, Operand),
    Ashc(Reg, Operand),
    Xor(Reg, Operand),
    /// Subtract one and branch back by so many words, below 64.
    Sob(Reg, u8),
    /// A branch by so many words: the low byte, to be taken as signed.
    Branch(Condition, u8),
    Jmp(Operand),
    Jsr(Reg, Operand),
    Rts(Reg),
    /// The number of words of arguments, below 64.
    Mark(u8),
    /// RTI and RTT.
    Rti,
    /// Whether the named codes are set; else they are cleared.
    Codes(bool, Flags),
    /// WAIT and RESET, which do nothing in user mode.
    Wait,
    SoftTrap(SoftTrap),
    Emt,
    /// TRAP, `sys` of the UNIX assembler: the number of the call, the word's low six bits.
    Sys(u8),
    /// A word that is no instruction here.
    Illegal,
}
