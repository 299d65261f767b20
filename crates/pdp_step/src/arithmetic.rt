//! Results and condition codes, for words and for bytes.
ghost use Rattle.std.specs.Prelude.{◌≡◌, ◌+◌, ◌<◌, ◌≤◌, ◌/◌, ◌==◌, not, if◌then◌else◌};
ghost use Rattle.pdp_decode.specs.Numbers.{one_if};
ghost use Rattle.pdp_step.specs.Arithmetic.{half, size, is_negative, is_below, result_of, shifted_of, swapped, is_taken};

use crate::regs::pack;
use crate::size::Size;
use pdp_decode::{Condition, Flags};

/// A result with the condition codes that it leaves.
#[derive(Clone, Copy)]
pub struct Made {
    pub value: u16,
    pub cc: u8,
}

/// The sign of a number.
#[inline(always)]
pub fn negative<W: Size>(x: u16) -> bool
    ensures { result ≡ is_negative W.width x }
{
    x as u32 >= W::top()
}

/// Whether one number is below another, as signed.
#[inline(always)]
pub fn below<W: Size>(a: u16, b: u16) -> bool
    ensures { result ≡ is_below W.width a b }
{
    W::cut(a as u32 + W::top()) < W::cut(b as u32 + W::top())
}

/// A code as a number.
#[inline(always)]
pub fn one(b: bool) -> u32
    ensures value { result ≡ one_if b }
    ensures small { result ≤ 1 }
{
    if b { 1 } else { 0 }
}

/// A result with V and C; N and Z go by it.
#[inline(always)]
pub fn outcome<W: Size>(value: u16, v: bool, c: bool) -> Made
    ensures made { result ≡ result_of W.width value v c }
    ensures codes { result.cc < 16 }
    ensures value { result.value ≡ value }
{
    Made {
        value,
        cc: pack(negative::<W>(value), value == 0, v, c),
    }
}

/// A shifted result, with the bit that went out in C.
#[inline(always)]
pub fn shifted<W: Size>(value: u16, c: bool) -> Made
    ensures made { result ≡ shifted_of W.width value c }
    ensures codes { result.cc < 16 }
    ensures value { result.value ≡ value }
{
    outcome::<W>(value, negative::<W>(value) != c, c)
}

/// Half of a number, with a new top bit.
#[inline(always)]
pub fn halved<W: Size>(d: u16, high: bool) -> u16
    requires { d < size W.width }
    ensures value { result ≡ d / 2 + (if high then half W.width else 0) }
    ensures small { result < size W.width }
{
    let low = d as u32 / 2;
    if high {
        (low + W::top()) as u16
    } else {
        low as u16
    }
}

/// A negated number: V where it is the least, C where it isn't 0.
#[inline(always)]
pub fn negated<W: Size>(t: u16) -> Made
    ensures made { result ≡ result_of W.width t (t == half W.width) (not (t == 0)) }
    ensures codes { result.cc < 16 }
    ensures value { result.value ≡ t }
{
    outcome::<W>(t, t as u32 == W::top(), t != 0)
}

/// The result of SWAB.
#[inline(always)]
#[tactic(auto, unfolding(crate::specs::Arithmetic::swapped))]
pub fn swap(d: u16) -> Made
    ensures made { result ≡ swapped d }
    ensures codes { result.cc < 16 }
{
    let t = d / 256 + 256 * (d % 256);
    Made {
        value: t,
        cc: pack(t % 256 >= 0o200, t % 256 == 0, false, false),
    }
}

/// Whether a branch is taken.
#[inline(always)]
#[tactic(auto, unfolding(crate::specs::Arithmetic::is_taken))]
pub fn taken(test: Condition, k: Flags) -> bool
    ensures { result ≡ is_taken test k }
{
    match test {
        Condition::Always => true,
        Condition::NotEqual => !k.z,
        Condition::Equal => k.z,
        Condition::GreaterOrEqual => k.n == k.v,
        Condition::Less => k.n != k.v,
        Condition::Greater => !k.z && k.n == k.v,
        Condition::LessOrEqual => k.z || k.n != k.v,
        Condition::Plus => !k.n,
        Condition::Minus => k.n,
        Condition::Higher => !k.c && !k.z,
        Condition::LowerOrSame => k.c || k.z,
        Condition::OverflowClear => !k.v,
        Condition::OverflowSet => k.v,
        Condition::CarryClear => !k.c,
        Condition::CarrySet => k.c,
    }
}
