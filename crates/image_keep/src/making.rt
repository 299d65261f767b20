//! Images that are made anew: `exec` in Lions' Commentary, `sys1.c`.
ghost use Rattle.std.specs.Prelude.{◌≡◌, ◌⊎◌, ◌+◌, ◌*◌, ◌<◌, ◌≤◌, None, Some, IfOk, IfErr, MatchResult, length};
ghost use Rattle.core_mem.specs.Bytes.{over};
ghost use Rattle.u_area.specs.Area.{area_bytes, IsSized};
ghost use Rattle.image_keep.specs.Area.{made_area};
ghost use Rattle.image_keep.specs.Line.{line_of};
ghost use Rattle.image_keep.specs.Fields.{AreLaid};
ghost use Rattle.image_keep.specs.Kept.{Nothing, keeping, text_of, text_bytes, text_clicks};
ghost use Rattle.image_keep.specs.Places.{placed, made_image};
ghost use Rattle.image_keep.specs.Moves.{with_image_moved};
ghost use Rattle.image_keep.specs.Resized.{cleared_bytes};

use crate::finding::{may_stand, take_place};
use crate::growth::{enter_place, sized_row};
use crate::images::{Images, NoSwap};
use crate::memory::Memory;
use crate::parts::{place_click, row_of, set_row};
use seg_regs::Proto;
use text_tab::TextId;
use u_area::{NOTHING_PENDING, UArea};
use v6_base::{Place, Slot};

/// The u area of an image that is made anew.
fn made_area(text_size: u16, data_size: u16, stack_size: u16) -> UArea
    ensures { result ≡ made_area text_size data_size stack_size }
{
    UArea {
        r: [0; 8],
        cc: 0,
        uid: 0,
        gid: 0,
        ruid: 0,
        rgid: 0,
        dir: 0,
        text_size,
        data_size,
        stack_size,
        pending: NOTHING_PENDING,
        call: [0; 8],
        user_time: 0,
        system_time: 0,
        child_user: 0,
        child_system: 0,
        status: 0,
        handlers: [0; 20],
        files: [0; 15],
    }
}

/// The same as bytes.
fn made_bytes(text_size: u16, data_size: u16, stack_size: u16) -> [u8; 1024]
    ensures sized { IsSized (made_area text_size data_size stack_size) }
    ensures written { result ≡ area_bytes (made_area text_size data_size stack_size) }
{
    let u = made_area(text_size, data_size, stack_size);
    let mut bytes = [0; 1024];
    u.store(&mut bytes);
    bytes
}

/// Lays an image of so many clicks, which is cleared but for its u area.
fn lay_cleared(memory: &mut Memory, at: usize, d: u16, stack: u16, area: &[u8; 1024])
    requires sizes { d + stack ≤ 1024 }
    requires low { at ≤ 11000 }
    requires place { (64 * (at + (16 + d + stack)) ≤ length memory.old.core) ⊎ (length memory.old.core ≤ 64 * at) }
    requires inside { 64 * (at + (16 + d + stack)) ≤ length (line_of memory.old) }
    ensures line { line_of memory.new ≡ over (line_of memory.old) (64 * at) (cleared_bytes d stack area.now) }
    ensures core { length memory.new.core ≡ length memory.old.core }
    ensures swap { length memory.new.swap ≡ length memory.old.swap }
{
    memory.clear(at, 16 + d + stack);
    memory.put(64 * at, area);
}

impl Images {
    /// Makes an image of these sizes in a slot without one, by first fit, with zeros in it and in its u area, beside the
    /// text that the slot has. The answer is where it stands. Lions' Commentary, `exec` in `sys1.c`.
    ///
    /// # Errors
    ///
    /// `NoSwap`: exactly where neither core nor the swap area has room. Nothing has changed then.
    pub fn replace(&mut self, s: Slot, p: Proto, text: Option<TextId>) -> Result<Place, NoSwap>
        requires slot { s < 50 }
        requires nothing { keeping self.old.kept s ≡ Nothing }
        requires text { text ≡ text_of self.old.kept s }
        requires text_size { p.text_size ≡ text_clicks self.old.kept text }
        ensures place { MatchResult result
            (λ place. placed self.old.kept s (16 + p.data_size + p.stack_size) ≡ Some place)
            (λ _. placed self.old.kept s (16 + p.data_size + p.stack_size) ≡ None) }
        ensures kept { self.new.kept
            ≡ with_image_moved self.old.kept s (made_area p.text_size p.data_size p.stack_size)
            (made_image (text_bytes self.old.kept text) p.data_size p.stack_size)
            (placed self.old.kept s (16 + p.data_size + p.stack_size)) }
        ensures written { IfOk result (λ place. AreLaid self.old self.new place
            (cleared_bytes p.data_size p.stack_size (area_bytes (made_area p.text_size p.data_size p.stack_size)))) }
        ensures stays { IfErr result (λ _. self.new ≡ self.old) }
    {
        let bytes = made_bytes(p.text_size, p.data_size, p.stack_size);
        let row = row_of(&self.rows, s as usize);
        let stands = may_stand(&self.texts, text);
        let clicks = 16 + p.data_size + p.stack_size;
        let place = match take_place(&mut self.core_map, &mut self.swap_map, stands, clicks) {
            Some(place) => place,
            None => return Err(NoSwap),
        };
        let at = place_click(self.core, place);
        lay_cleared(&mut self.memory, at, p.data_size, p.stack_size, &bytes);
        enter_place(&mut self.texts, text, None, place);
        set_row(
            &mut self.rows,
            s as usize,
            sized_row(row, place, p.data_size, p.stack_size),
        );
        Ok(place)
    }
}
