//! A process where it stands in core: what an instruction reads and writes of it, in place.
ghost use Rattle.std.specs.Prelude.{◌≡◌, ℕ, ◌+◌, ◌%◌, ◌<◌, ◌≤◌, ◌⊎◌, IfSome, Ok, false, length, slice_index, slice_set};
ghost use Rattle.v6_base.specs.Access.{load_byte, load_word, store_byte, store_word};
ghost use Rattle.v6_base.specs.Words.{word_set};
ghost use Rattle.core_mem.specs.Bytes.{part, over};
ghost use Rattle.image_keep.specs.Running.{words_or};
ghost use Rattle.image_keep.specs.Standing.{IsNear, standing_image, StandsIn, IsPlace, IsWordPlace, address};
ghost use Rattle.image_keep.specs.Near.{registers_at, codes_at, IsStated};

use crate::memory::word_in;
use crate::starts::Starts;
use crate::state::{PC, STATE_SIZE};
use u_area::{AREA_SIZE, PS};

/// Where the parts of a process stand in core, in bytes from its beginning: the u area, the text, the data with the stack
/// behind them; and the addresses at which the data and the stack begin.
#[derive(Clone, Copy, Debug, PartialEq, Eq)]
pub(crate) struct Standing {
    pub area: usize,
    pub text: usize,
    pub text_len: usize,
    /// The program: the text, or the data where there is none.
    pub code: usize,
    pub code_len: usize,
    /// The same once more, for the words after the first of an instruction: the compiler then keeps no register for it.
    pub code_end: usize,
    pub base: usize,
    pub data: usize,
    pub data_len: usize,
    pub data_end: usize,
    pub stack_start: usize,
    /// What is added to an address of the stack, modulo 2 to the 64th.
    pub stack: usize,
    /// 1, the bit of an odd address: the compiler doesn't know it, and so reads a word as a word.
    pub odd: usize,
    /// 0, likewise: it is added to the word of an instruction.
    pub nought: u32,
    /// 0 once more: it is added to PC.
    pub nil: u32,
}

/// Puts a word to two neighbours.
#[inline(always)]
fn put_word(core: &mut [u8], at: usize, value: u16)
    requires { at + 2 ≤ length core.old }
    ensures word { core.new ≡ word_set core.old at value }
    ensures size { length core.new ≡ length core.old }
{
    core[at] = (value % 256) as u8;
    core[at + 1] = (value / 256) as u8;
}

/// Whether an address is odd.
#[inline(always)]
fn is_odd(f: &Standing, at: usize) -> bool
    requires { f.now.odd ≡ 1 }
    ensures { result ≡ false → at % 2 ≡ 0 }
{
    at & f.odd != 0
}

impl Standing {
    /// No process: its program has no bytes.
    fn none() -> Standing
        ensures none { result.code_len ≡ 0 }
        ensures area { result.area ≡ 0 }
        ensures nil { result.nil ≡ 0 }
    {
        Standing {
            area: 0,
            text: 0,
            text_len: 0,
            code: 0,
            code_len: 0,
            code_end: 0,
            base: 0,
            data: 0,
            data_len: 0,
            data_end: 0,
            stack_start: 0,
            stack: 0,
            odd: 1,
            nought: 0,
            nil: 0,
        }
    }

    /// Where a process stands whose parts start there, if all of them are in core.
    pub fn of(starts: &Starts) -> Standing
        ensures { IsNear result starts.now }
    {
        let text_end = starts.text + starts.text_len;
        let data_end = starts.image + starts.data_len;
        let stack_end = data_end + (65536 - starts.stack_start);
        if starts.image < AREA_SIZE || text_end > starts.core || stack_end > starts.core {
            return Standing::none();
        }
        let is_bare = starts.text_len == 0;
        let code_len = if is_bare {
            starts.data_len
        } else {
            starts.text_len
        };
        Standing {
            area: starts.image - AREA_SIZE,
            text: starts.text,
            text_len: starts.text_len,
            code: if is_bare { starts.image } else { starts.text },
            code_len,
            code_end: code_len,
            base: starts.base,
            data: starts.image,
            data_len: starts.data_len,
            data_end,
            stack_start: starts.stack_start,
            stack: data_end.wrapping_sub(starts.stack_start),
            odd: 1,
            nought: 0,
            nil: 0,
        }
    }

    /// The place of the byte at an address, where that is one of the data or of the stack.
    #[inline(always)]
    fn place(&self, v: usize) -> Option<usize>
        requires stands { (n : ℕ) × StandsIn n self.now }
        requires address { v < 65536 }
        ensures place { IfSome result (λ place. IsPlace self.now place) }
        ensures address { IfSome result (λ place. address self.now place ≡ v) }
    {
        let i = v.wrapping_sub(self.base);
        if i < self.data_len {
            return Some(self.data + i);
        }
        if v >= self.stack_start {
            return Some(self.stack.wrapping_add(v));
        }
        None
    }

    /// The place of the word at an address, where it is even.
    #[inline(always)]
    pub fn place_of_word(&self, at: u16) -> Option<usize>
        requires { (n : ℕ) × StandsIn n self.now }
        ensures place { IfSome result (λ place. IsWordPlace self.now place) }
        ensures address { IfSome result (λ place. address self.now place ≡ at) }
    {
        let v = usize::from(at);
        if is_odd(self, v) {
            return None;
        }
        self.place(v)
    }

    /// The place of the byte at an address.
    #[inline(always)]
    pub fn place_of_byte(&self, at: u16) -> Option<usize>
        requires { (n : ℕ) × StandsIn n self.now }
        ensures place { IfSome result (λ place. IsPlace self.now place) }
        ensures address { IfSome result (λ place. address self.now place ≡ at) }
    {
        self.place(usize::from(at))
    }
}

/// The word of the instruction at an address, where it is even and within: no other test tells whether the process is at hand.
#[inline(always)]
#[tactic(auto, using(crate::proofs::StandingParts::programs))]
pub(crate) fn instruction_word(core: &[u8], f: &Standing, pc: usize) -> Option<u32>
    requires { 0 < f.now.code_len → StandsIn (length core.now) f.now }
    ensures near { IfSome result (λ _. 0 < f.now.code_len) }
    ensures word { IfSome result (λ word. load_word (standing_image core.now f.now) pc ≡ Ok word) }
    ensures small { IfSome result (λ word. word < 65536) }
    ensures low { IfSome result (λ _. pc < 65536) }
{
    if pc % 2 == 1 || pc >= f.code_len {
        return None;
    }
    Some(u32::from(word_in(core, f.code + pc)) + f.nought)
}

/// The word of the program at an address, where it is even and within.
#[inline(always)]
#[tactic(auto, using(crate::proofs::StandingParts::programs))]
pub(crate) fn program_word(core: &[u8], f: &Standing, pc: usize) -> Option<u16>
    requires { StandsIn (length core.now) f.now }
    ensures word { IfSome result (λ word. load_word (standing_image core.now f.now) pc ≡ Ok word) }
    ensures low { IfSome result (λ _. pc < 65536) }
{
    if pc % 2 == 1 || pc >= f.code_end {
        return None;
    }
    Some(word_in(core, f.code + pc))
}

/// The four words of the program from an address on, where it is even and all of them are within.
#[inline(always)]
pub(crate) fn program_words(core: &[u8], f: &Standing, pc: usize) -> Option<[u16; 4]>
    requires stands { 0 < f.now.code_len → StandsIn (length core.now) f.now }
    requires address { pc < 65536 }
    ensures near { IfSome result (λ _. 0 < f.now.code_len) }
    ensures words { IfSome result (λ words. (other : ℕ) → words ≡ words_or (standing_image core.now f.now) pc other) }
{
    if pc % 2 == 1 || pc + 6 >= f.code_len {
        return None;
    }
    let at = f.code + pc;
    Some([
        word_in(core, at),
        word_in(core, at + 2),
        word_in(core, at + 4),
        word_in(core, at + 6),
    ])
}

/// The byte of the program at an address, where it is within.
#[inline(always)]
#[tactic(auto, using(crate::proofs::StandingParts::programs))]
pub(crate) fn program_byte(core: &[u8], f: &Standing, pc: usize) -> Option<u8>
    requires { StandsIn (length core.now) f.now }
    ensures byte { IfSome result (λ byte. load_byte (standing_image core.now f.now) pc ≡ Ok byte) }
    ensures low { IfSome result (λ _. pc < 65536) }
{
    if pc >= f.code_end {
        return None;
    }
    Some(core[f.code + pc])
}

/// The word at a place.
#[inline(always)]
#[tactic(auto, using(crate::proofs::StandingParts::loads))]
pub(crate) fn load_word(core: &[u8], f: &Standing, place: usize) -> u16
    requires stands { StandsIn (length core.now) f.now }
    requires place { IsWordPlace f.now place }
    ensures { load_word (standing_image core.now f.now) (address f.now place) ≡ Ok result }
{
    word_in(core, place)
}

/// The byte at a place.
#[inline(always)]
#[tactic(auto, using(crate::proofs::StandingParts::loads))]
pub(crate) fn load_byte(core: &[u8], f: &Standing, place: usize) -> u8
    requires stands { StandsIn (length core.now) f.now }
    requires place { IsPlace f.now place }
    ensures { load_byte (standing_image core.now f.now) (address f.now place) ≡ Ok result }
{
    core[place]
}

/// Puts a word to a place: that word of the image, and nothing else.
#[inline(always)]
#[tactic(auto, using(crate::proofs::StandingParts::stores))]
pub(crate) fn store_word(core: &mut [u8], f: &Standing, place: usize, value: u16)
    requires stands { StandsIn (length core.old) f.now }
    requires place { IsWordPlace f.now place }
    ensures image { store_word (standing_image core.old f.now) (address f.now place) value ≡ Ok (standing_image core.new f.now) }
    ensures rest { (k m : ℕ) → (k + m ≤ f.now.data) ⊎ (f.now.data_end + 65536 ≤ k + f.now.stack_start) → part core.new k m ≡ part core.old k m }
    ensures size { length core.new ≡ length core.old }
{
    put_word(core, place, value);
}

/// Puts a byte to a place, likewise.
#[inline(always)]
#[tactic(auto, using(crate::proofs::StandingParts::stores))]
pub(crate) fn store_byte(core: &mut [u8], f: &Standing, place: usize, value: u8)
    requires stands { StandsIn (length core.old) f.now }
    requires place { IsPlace f.now place }
    ensures image { store_byte (standing_image core.old f.now) (address f.now place) value ≡ Ok (standing_image core.new f.now) }
    ensures rest { (k m : ℕ) → (k + m ≤ f.now.data) ⊎ (f.now.data_end + 65536 ≤ k + f.now.stack_start) → part core.new k m ≡ part core.old k m }
    ensures size { length core.new ≡ length core.old }
{
    core[place] = value;
}

/// What a register of a process holds, in front of its u area, which stands there.
#[inline(always)]
pub(crate) fn reg(core: &[u8], at: usize, n: usize) -> u16
    requires inside { at + 18 ≤ length core.now }
    requires number { n < 8 }
    ensures { result ≡ slice_index (registers_at core.now at) n }
{
    word_in(core, at + 2 * n)
}

/// PC of a process. Its u area is in core, also where the process isn't at hand.
#[inline(always)]
pub(crate) fn pc_of(core: &[u8], f: &Standing) -> usize
    requires inside { f.now.area + 18 ≤ length core.now }
    requires nil { f.now.nil ≡ 0 }
    ensures { result ≡ slice_index (registers_at core.now f.now.area) 7 }
{
    (u32::from(word_in(core, f.area + PC)) + f.nil) as usize
}

/// The condition codes of a process, in front of its u area, which stands there.
#[inline(always)]
pub(crate) fn codes(core: &[u8], at: usize) -> u8
    requires inside { at + 18 ≤ length core.now }
    requires stated { IsStated core.now at }
    ensures { result ≡ codes_at core.now at }
{
    core[at + PS]
}

/// Gives a register of a process a value, in the bytes of its u area, which stands there.
#[inline(always)]
#[tactic(auto, using(crate::proofs::StandingState::registers))]
pub(crate) fn set_reg(core: &mut [u8], at: usize, n: usize, value: u16)
    requires inside { at + 18 ≤ length core.old }
    requires number { n < 8 }
    requires stated { IsStated core.old at }
    ensures registers { registers_at core.new at ≡ slice_set (registers_at core.old at) n value }
    ensures codes { codes_at core.new at ≡ codes_at core.old at }
    ensures stated { IsStated core.new at }
    ensures rest { (k m : ℕ) → (k + m ≤ at) ⊎ (at + 18 ≤ k) → part core.new k m ≡ part core.old k m }
    ensures size { length core.new ≡ length core.old }
{
    put_word(core, at + 2 * n, value);
}

/// Gives a process condition codes, likewise.
#[inline(always)]
#[tactic(auto, using(crate::proofs::StandingState::registers))]
pub(crate) fn set_codes(core: &mut [u8], at: usize, cc: u8)
    requires inside { at + 18 ≤ length core.old }
    requires codes { cc < 16 }
    requires stated { IsStated core.old at }
    ensures registers { registers_at core.new at ≡ registers_at core.old at }
    ensures codes { codes_at core.new at ≡ cc }
    ensures stated { IsStated core.new at }
    ensures rest { (k m : ℕ) → (k + m ≤ at) ⊎ (at + 18 ≤ k) → part core.new k m ≡ part core.old k m }
    ensures size { length core.new ≡ length core.old }
{
    core[at + PS] = cc;
}

/// The bytes of the registers and of the processor status word of a process, as they stand in front of its u area.
#[inline(always)]
#[tactic(auto, unfolding(core_mem::specs::Bytes::part))]
pub(crate) fn state_at(core: &[u8], at: usize) -> [u8; STATE_SIZE]
    requires { at + 18 ≤ length core.now }
    ensures { result ≡ part core.now at 18 }
{
    let mut bytes = [0; STATE_SIZE];
    bytes.copy_from_slice(&core[at..at + STATE_SIZE]);
    bytes
}

/// Puts them back.
#[inline(always)]
#[tactic(auto, unfolding(core_mem::specs::Bytes::over))]
pub(crate) fn set_state(core: &mut [u8], at: usize, bytes: &[u8; STATE_SIZE])
    requires { at + length bytes.now ≤ length core.old }
    ensures { core.new ≡ over core.old at bytes.now }
{
    core[at..at + STATE_SIZE].copy_from_slice(bytes);
}
