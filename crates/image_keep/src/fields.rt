//! The u area of an image, read and written where it stands, whole and field by field.
ghost use Rattle.std.specs.Prelude.{◌≡◌, ◌+◌, ◌-◌, ◌*◌, ◌<◌, ◌≤◌, [], ◌∷◌, ◌++◌, length, replicate};
ghost use Rattle.fs_codec.specs.Bytes.{bytes_of, long_words};
ghost use Rattle.u_area.specs.Area.{fetched, front_bytes, IsStored};
ghost use Rattle.u_area.specs.Fields.{with_register, with_codes, with_ids, with_handler, with_call, with_tick, with_no_times, with_child_times, with_end};
ghost use Rattle.u_area.specs.declared.area.UArea.{UArea};
ghost use Rattle.image_keep.specs.Kept.{Held, Has, HasImage, HasSizes, IsKept, area_of, image_of, with_area};
ghost use Rattle.image_keep.specs.Fields.{IsAreaAt, IsPut, IsWritten, AreWritten, IsTicked, area_there, over_call, over_end};
ghost use Rattle.image_keep.specs.Lent.{outside_of};
ghost use Rattle.image_keep.specs.Stepped.{over_outside};
ghost use Rattle.image_keep.specs.Running.{IsFixed, with_pc, with_results, with_state, state_bytes};

use crate::images::Images;
use crate::memory::see_bytes;
use crate::parts::{place_click, place_of, row_of};
use crate::running::Fixed;
use crate::state::{PC, state_bytes, two_words};
use fs_codec::put_words;
use pdp_step::Regs;
use u_area::{
    AREA_SIZE, CALL, DIRECTORY, HANDLERS, IDS, PENDING, PS, REGISTERS, STATUS, TIMES, UArea, UMODE,
    codes, fetch_bytes, own_times, registers,
};
use v6_base::Slot;

/// The bytes of a word.
#[inline(always)]
#[tactic(auto, unfolding(fs_codec::specs::Bytes::bytes_of))]
fn one_word(word: u16) -> [u8; 2]
    ensures { result ≡ bytes_of (word ∷ []) }
{
    [(word % 256) as u8, (word / 256) as u8]
}

/// The bytes of eight words.
fn eight_words(words: &[u16; 8]) -> [u8; 16]
    ensures { result ≡ bytes_of words.now }
{
    let mut bytes = [0; 16];
    put_words(&mut bytes, 0, words);
    see_bytes(&bytes);
    bytes
}

/// The bytes of twenty words.
fn twenty_words(words: &[u16; 20]) -> [u8; 40]
    ensures { result ≡ bytes_of words.now }
{
    let mut bytes = [0; 40];
    put_words(&mut bytes, 0, words);
    see_bytes(&bytes);
    bytes
}

/// The bytes of two long words, each with its high word first.
fn two_longs(first: u32, second: u32) -> [u8; 8]
    ensures { result ≡ bytes_of (long_words first ++ long_words second) }
{
    let mut bytes = [0; 8];
    let words = [
        (first / 65536) as u16,
        (first % 65536) as u16,
        (second / 65536) as u16,
        (second % 65536) as u16,
    ];
    put_words(&mut bytes, 0, &words);
    see_bytes(&bytes);
    bytes
}

impl Images {
    // Where in the line of core and the swap area a slot's image begins, with its u area.
    #[inline(always)]
    fn area_start(&self, s: Slot) -> usize
        requires { HasImage self.now.kept s }
        ensures { IsAreaAt self.now.kept s result }
    {
        64 * place_click(self.core, place_of(row_of(&self.rows, s as usize)))
    }

    // The same of the process of which this is fixed.
    #[inline(always)]
    fn fixed_start(&self, fixed: &Fixed) -> usize
        requires { IsFixed self.now.kept fixed.now }
        ensures image { HasImage self.now.kept fixed.now.slot }
        ensures place { IsAreaAt self.now.kept fixed.now.slot result }
        ensures at { result ≡ fixed.now.starts.image - 1024 }
    {
        fixed.starts.image - AREA_SIZE
    }

    // The bytes of the u area of a slot, which begins at a place.
    #[inline(always)]
    fn bytes_from(&self, s: Slot, at: usize) -> &[u8]
        requires image { HasImage self.now.kept s }
        requires place { IsAreaAt self.now.kept s at }
        ensures there { (held : Held) → Has self.now.kept s held → result.now ≡ area_there self.now held.place }
        ensures read { fetched result.now ≡ area_of self.now.kept s }
        ensures stored { IsStored result.now }
        ensures size { length result.now ≡ 1024 }
    {
        let _ = s;
        self.memory.area_bytes(at)
    }

    // The u area of a slot, which begins at a place: the fetch of its bytes.
    #[inline(always)]
    fn area_from(&self, s: Slot, at: usize) -> UArea
        requires image { HasImage self.now.kept s }
        requires place { IsAreaAt self.now.kept s at }
        ensures fetch { (held : Held) → Has self.now.kept s held → result ≡ fetched (area_there self.now held.place) }
        ensures u { result ≡ area_of self.now.kept s }
        ensures sizes { HasSizes result (image_of self.now.kept s) }
        ensures holds { IsKept self.now.kept }
    {
        self.see_kept();
        fetch_bytes(self.bytes_from(s, at))
    }

    /// The bytes of the u area of a slot with an image, where they stand in core or in the swap area. The functions of `u_area`
    /// read its fields there.
    #[inline(always)]
    pub fn area_bytes(&self, s: Slot) -> &[u8]
        requires { HasImage self.now.kept s }
        ensures there { (held : Held) → Has self.now.kept s held → result.now ≡ area_there self.now held.place }
        ensures read { fetched result.now ≡ area_of self.now.kept s }
        ensures stored { IsStored result.now }
        ensures size { length result.now ≡ 1024 }
    {
        let at = self.area_start(s);
        self.bytes_from(s, at)
    }

    /// The u area of a slot with an image: the fetch of the bytes where it stands, in core or in the swap area.
    #[inline(never)]
    pub fn area(&self, s: Slot) -> UArea
        requires { HasImage self.now.kept s }
        ensures fetch { (held : Held) → Has self.now.kept s held → result ≡ fetched (area_there self.now held.place) }
        ensures u { result ≡ area_of self.now.kept s }
        ensures sizes { HasSizes result (image_of self.now.kept s) }
        ensures holds { IsKept self.now.kept }
    {
        let at = self.area_start(s);
        self.area_from(s, at)
    }

    /// The same of the process of which this is fixed.
    #[inline(always)]
    pub fn area_bytes_at(&self, fixed: &Fixed) -> &[u8]
        requires { IsFixed self.now.kept fixed.now }
        ensures there { (held : Held) → Has self.now.kept fixed.now.slot held → result.now ≡ area_there self.now held.place }
        ensures read { fetched result.now ≡ area_of self.now.kept fixed.now.slot }
        ensures stored { IsStored result.now }
        ensures size { length result.now ≡ 1024 }
    {
        let at = self.fixed_start(fixed);
        self.bytes_from(fixed.slot, at)
    }

    /// And that u area.
    #[inline(never)]
    pub fn area_at(&self, fixed: &Fixed) -> UArea
        requires { IsFixed self.now.kept fixed.now }
        ensures fetch { (held : Held) → Has self.now.kept fixed.now.slot held
            → result ≡ fetched (area_there self.now held.place) }
        ensures u { result ≡ area_of self.now.kept fixed.now.slot }
        ensures sizes { HasSizes result (image_of self.now.kept fixed.now.slot) }
        ensures holds { IsKept self.now.kept }
    {
        let at = self.fixed_start(fixed);
        self.area_from(fixed.slot, at)
    }

    // Puts bytes into the u area of a slot's image, which begins at a place and stays there.
    #[inline(always)]
    fn put_field(&mut self, s: Slot, at: usize, field: usize, bytes: &[u8])
        requires image { HasImage self.old.kept s }
        requires place { IsAreaAt self.old.kept s at }
        requires within { field + length bytes.now ≤ 1024 }
        requires law { (u : UArea) × IsPut (area_of self.old.kept s) field bytes.now u }
        ensures kept { (u : UArea) → IsPut (area_of self.old.kept s) field bytes.now u → self.new.kept ≡ with_area self.old.kept s u }
        ensures written { AreWritten self.old self.new s field bytes.now }
        ensures room { at + 1024 ≤ length (self.old.core ++ self.old.swap) }
        ensures image { HasImage self.new.kept s }
        ensures place { IsAreaAt self.new.kept s at }
    {
        let _ = s;
        self.memory.see_bytes();
        self.memory.put(at + field, bytes);
    }

    /// Gives a slot with an image another u area, with the sizes of that image: its first 120 bytes are written, behind which
    /// all is 0.
    pub fn set_area(&mut self, s: Slot, u: &UArea)
        requires image { HasImage self.old.kept s }
        requires sizes { HasSizes u.now (image_of self.old.kept s) }
        ensures kept { self.new.kept ≡ with_area self.old.kept s u.now }
        ensures written { AreWritten self.old self.new s 0 (front_bytes u.now) }
    {
        self.see_kept();
        let front = u.front();
        let at = self.area_start(s);
        self.put_field(s, at, 0, &front);
    }

    /// Puts R0 and R1 into the u area of a slot with an image: its first four bytes are written.
    #[inline(always)]
    pub fn set_results(&mut self, s: Slot, r0: u16, r1: u16)
        requires { HasImage self.old.kept s }
        ensures kept { self.new.kept ≡ with_area self.old.kept s (with_results (area_of self.old.kept s) r0 r1) }
        ensures written { AreWritten self.old self.new s 0 (bytes_of (r0 ∷ r1 ∷ [])) }
    {
        let at = self.area_start(s);
        self.put_field(s, at, REGISTERS, &two_words(r0, r1));
    }

    /// Puts registers and condition codes into the u area of a slot with an image: its first 18 bytes are written.
    pub fn set_registers(&mut self, s: Slot, r: &[u16; 8], cc: u8)
        requires image { HasImage self.old.kept s }
        requires codes { cc < 16 }
        ensures kept { self.new.kept ≡ with_area self.old.kept s (with_state (area_of self.old.kept s) r.now cc) }
        ensures written { AreWritten self.old self.new s 0 (state_bytes r.now cc) }
    {
        let at = self.area_start(s);
        self.put_field(s, at, REGISTERS, &state_bytes(r, cc));
    }

    /// Puts one register there: two bytes are written.
    #[inline(always)]
    pub fn set_register(&mut self, s: Slot, n: usize, value: u16)
        requires image { HasImage self.old.kept s }
        requires number { n < 8 }
        ensures kept { self.new.kept ≡ with_area self.old.kept s (with_register (area_of self.old.kept s) n value) }
        ensures written { AreWritten self.old self.new s (2 * n) (bytes_of (value ∷ [])) }
    {
        let at = self.area_start(s);
        self.put_field(s, at, REGISTERS + 2 * n, &one_word(value));
    }

    /// Puts condition codes there: one byte is written, the low one of the processor status word.
    #[inline(always)]
    pub fn set_codes(&mut self, s: Slot, cc: u8)
        requires image { HasImage self.old.kept s }
        requires codes { cc < 16 }
        ensures kept { self.new.kept ≡ with_area self.old.kept s (with_codes (area_of self.old.kept s) cc) }
        ensures written { AreWritten self.old self.new s 16 (cc ∷ []) }
    {
        let at = self.area_start(s);
        self.put_field(s, at, PS, &[cc]);
    }

    /// Puts a user, a group, a real user and a real group there: four bytes are written.
    pub fn set_ids(&mut self, s: Slot, ids: [u8; 4])
        requires { HasImage self.old.kept s }
        ensures kept { self.new.kept ≡ with_area self.old.kept s (with_ids (area_of self.old.kept s) ids) }
        ensures written { AreWritten self.old self.new s 18 ids }
    {
        let at = self.area_start(s);
        self.put_field(s, at, IDS, &ids);
    }

    /// Puts there what a signal shall do: two bytes are written.
    pub fn set_handler(&mut self, s: Slot, sig: usize, handler: u16)
        requires image { HasImage self.old.kept s }
        requires number { sig < 20 }
        ensures kept { self.new.kept ≡ with_area self.old.kept s (with_handler (area_of self.old.kept s) sig handler) }
        ensures written { AreWritten self.old self.new s (64 + 2 * sig) (bytes_of (handler ∷ [])) }
    {
        let at = self.area_start(s);
        self.put_field(s, at, HANDLERS + 2 * sig, &one_word(handler));
    }

    /// Puts a call there with which the process is to go on, or none, and what is kept of it: 17 bytes are written.
    pub fn set_call(&mut self, s: Slot, pending: u8, call: &[u16; 8])
        requires { HasImage self.old.kept s }
        ensures kept { self.new.kept ≡ with_area self.old.kept s (with_call (area_of self.old.kept s) pending call.now) }
        ensures written { IsWritten self.old self.new s (over_call pending call.now) }
    {
        let at = self.area_start(s);
        self.put_field(s, at, PENDING, &[pending]);
        self.put_field(s, at, CALL, &eight_words(call));
    }

    /// Adds a tick to the time of a process in user mode, or in the kernel: one word is written.
    #[inline(always)]
    pub fn add_tick(&mut self, s: Slot, in_kernel: bool)
        requires { HasImage self.old.kept s }
        ensures kept { self.new.kept ≡ with_area self.old.kept s (with_tick (area_of self.old.kept s) in_kernel) }
        ensures written { IsTicked self.old self.new s in_kernel }
    {
        let at = self.area_start(s);
        let [user, system] = own_times(self.area_bytes(s));
        if in_kernel {
            let ticks = system.wrapping_add(1);
            self.put_field(s, at, TIMES + 2, &one_word(ticks));
            return;
        }
        let ticks = user.wrapping_add(1);
        self.put_field(s, at, TIMES, &one_word(ticks));
    }

    /// A process has used no time, and no child of it has: 12 bytes are written.
    pub fn clear_times(&mut self, s: Slot)
        requires { HasImage self.old.kept s }
        ensures kept { self.new.kept ≡ with_area self.old.kept s (with_no_times (area_of self.old.kept s)) }
        ensures written { AreWritten self.old self.new s 48 (replicate 12 0) }
    {
        let at = self.area_start(s);
        self.put_field(s, at, TIMES, &[0; 12]);
    }

    /// Gives a process other times of its children: eight bytes are written.
    pub fn set_child_times(&mut self, s: Slot, user: u32, system: u32)
        requires { HasImage self.old.kept s }
        ensures kept { self.new.kept ≡ with_area self.old.kept s (with_child_times (area_of self.old.kept s) user system) }
        ensures written { AreWritten self.old self.new s 52 (bytes_of (long_words user ++ long_words system)) }
    {
        let at = self.area_start(s);
        self.put_field(s, at, TIMES + 4, &two_longs(user, system));
    }

    /// A process has ended with a status: it has no directory, and does this where signals come. Two bytes, two and 40 are
    /// written.
    pub fn set_ended(&mut self, s: Slot, status: u16, handlers: &[u16; 20])
        requires { HasImage self.old.kept s }
        ensures kept { self.new.kept ≡ with_area self.old.kept s (with_end (area_of self.old.kept s) status handlers.now) }
        ensures written { IsWritten self.old self.new s (over_end status handlers.now) }
    {
        let at = self.area_start(s);
        self.put_field(s, at, DIRECTORY, &one_word(0));
        self.put_field(s, at, STATUS, &one_word(status));
        self.put_field(s, at, HANDLERS, &twenty_words(handlers));
    }

    /// Puts PC and condition codes into the u area of the process of which this is fixed: four bytes are written.
    #[inline(always)]
    pub fn set_pc_at(&mut self, fixed: &Fixed, pc: u16, cc: u8)
        requires fixed { IsFixed self.old.kept fixed.now }
        requires codes { cc < 16 }
        ensures kept { self.new.kept ≡ with_area self.old.kept fixed.now.slot (with_pc (area_of self.old.kept fixed.now.slot) pc cc) }
        ensures written { AreWritten self.old self.new fixed.now.slot 14 (bytes_of (pc ∷ (61440 + cc) ∷ [])) }
        ensures fixed { IsFixed self.new.kept fixed.now }
    {
        let at = self.fixed_start(fixed);
        self.put_field(fixed.slot, at, PC, &two_words(pc, UMODE + u16::from(cc)));
    }

    /// Puts registers and condition codes into the u area of the process of which this is fixed.
    #[inline(always)]
    pub(crate) fn set_registers_at(&mut self, fixed: &Fixed, r: &[u16; 8], cc: u8)
        requires fixed { IsFixed self.old.kept fixed.now }
        requires codes { cc < 16 }
        ensures kept { self.new.kept ≡ with_area self.old.kept fixed.now.slot (with_state (area_of self.old.kept fixed.now.slot) r.now cc) }
        ensures outside { outside_of self.new fixed.now.slot
            ≡ over_outside (outside_of self.old fixed.now.slot) (fixed.now.starts.image - 1024) (state_bytes r.now cc) }
        ensures fixed { IsFixed self.new.kept fixed.now }
    {
        let at = self.fixed_start(fixed);
        self.put_field(fixed.slot, at, REGISTERS, &state_bytes(r, cc));
    }

    /// Registers and condition codes of the process of which this is fixed.
    #[inline(always)]
    pub(crate) fn registers_at(&self, fixed: &Fixed) -> Regs
        requires { IsFixed self.now.kept fixed.now }
        ensures r { result.r ≡ (area_of self.now.kept fixed.now.slot).r }
        ensures cc { result.cc ≡ (area_of self.now.kept fixed.now.slot).cc }
    {
        let bytes = self.area_bytes_at(fixed);
        Regs {
            r: registers(bytes),
            cc: codes(bytes),
        }
    }
}
