//! Prototypes: the sizes of a program's parts, where they are allowed.
ghost use Rattle.std.specs.Prelude.{◌≡◌, ◌+◌, ◌≤◌, true, false, MatchResult};
ghost use Rattle.v6_base.specs.Image.{nseg};
ghost use Rattle.seg_regs.specs.Sizes.{is_refused};
ghost use Rattle.seg_regs.specs.Addresses.{translated};

use v6_base::Trap;

/// The sizes of a text, of data and of a stack, in clicks of 64 bytes, which fit the eight segments together: `u_tsize`,
/// `u_dsize` and `u_ssize` of `user.h` in Lions' Commentary.
#[derive(Clone, Copy, Debug, PartialEq, Eq)]
pub struct Proto {
    pub text_size: u16,
    pub data_size: u16,
    pub stack_size: u16,
    pub ghost segments: { nseg text_size + nseg data_size + nseg stack_size ≤ 8 },
}

/// The parts take more than eight segments, or their image is larger than images may be: the error ENOMEM of Lions'
/// Commentary, `estabur`.
#[derive(Clone, Copy, Debug, PartialEq, Eq)]
pub struct TooBig;

/// Where a byte of a program lies.
#[derive(Clone, Copy, Debug, PartialEq, Eq)]
pub enum Spot {
    /// This byte of the text.
    Text(u32),
    /// This byte of what follows the u area in the image: the data, and after them the stack.
    Image(u32),
}

/// The number of segments of 128 clicks that so many clicks take.
fn segments(clicks: u16) -> u32
    ensures { result ≡ nseg clicks }
{
    (u32::from(clicks) + 127) / 128
}

impl Proto {
    /// The prototype of these sizes of text, data and stack, in clicks. `max` is the most clicks that an image may have.
    ///
    /// # Errors
    ///
    /// `TooBig`: exactly where they take more than eight segments, or, with the 16 clicks of the u area, more than `max`
    /// clicks.
    pub fn make(t: u16, d: u16, s: u16, max: u16) -> Result<Proto, TooBig>
        ensures { MatchResult result
            (λ proto. (is_refused t d s max ≡ false) × (proto.text_size ≡ t) × (proto.data_size ≡ d) × (proto.stack_size ≡ s))
            (λ _. is_refused t d s max ≡ true) }
    {
        if segments(t) + segments(d) + segments(s) > 8 {
            return Err(TooBig);
        }
        if u32::from(t) + u32::from(d) + u32::from(s) + 16 > u32::from(max) {
            return Err(TooBig);
        }
        Ok(Proto {
            text_size: t,
            data_size: d,
            stack_size: s,
        })
    }

    /// Where the byte at address `v` lies, for a program that reads it or, with `write`, writes it.
    ///
    /// # Errors
    ///
    /// `Trap::Segment`: exactly where the address names nothing, or is one of the text and written.
    #[inline(always)]
    #[tactic(auto, using(crate::proofs::Clicks::clicks_in), unfolding(crate::specs::Addresses::translated, v6_base::specs::Image::named_by))]
    pub fn translate(&self, v: u16, write: bool) -> Result<Spot, Trap>
        ensures { result ≡ translated self.now.text_size self.now.data_size self.now.stack_size v write }
    {
        let at = u32::from(v);
        if at < 64 * u32::from(self.text_size) {
            if write {
                return Err(Trap::Segment);
            }
            return Ok(Spot::Text(at));
        }
        let size = 64 * u32::from(self.data_size);
        let start = 8192 * segments(self.text_size);
        if start <= at && at < start + size {
            return Ok(Spot::Image(at - start));
        }
        let stack = 65536 - 64 * u32::from(self.stack_size);
        if stack <= at {
            return Ok(Spot::Image(size + (at - stack)));
        }
        Err(Trap::Segment)
    }
}
