//! Runs of bytes of one image, where it stands.
ghost use Rattle.std.specs.Prelude.{◌≡◌, ◌+◌, ◌%◌, ◌<◌, ◌≤◌, ℕ, List, true, false, Some, None, length};
ghost use Rattle.std.specs.Option.{is_some};
ghost use Rattle.v6_base.specs.Image.{IsImage};
ghost use Rattle.v6_base.specs.Copy.{load_bytes, store_bytes, image_or, is_writable};
ghost use Rattle.v6_base.specs.Words.{IsWithin, IsStorable};
ghost use Rattle.v6_base.specs.Runs.{room, run_at, with_run};
ghost use Rattle.image_keep.specs.Kept.{image_of, with_image};
ghost use Rattle.image_keep.specs.Lent.{outside_of};
ghost use Rattle.image_keep.specs.Starts.{AreStarts};

use crate::access::is_storable;
use crate::images::Images;
use crate::starts::Starts;
use v6_base::Named;

impl Images {
    /// How many bytes stand from a place on, up to the end of its list.
    #[inline(always)]
    fn room(&self, s: usize, starts: &Starts, at: Named) -> usize
        requires starts { AreStarts self.now.kept s starts.now }
        requires within { IsWithin (image_of self.now.kept s) at }
        ensures { result ≡ room (image_of self.now.kept s) at }
    {
        let _ = &self.memory;
        match at {
            Named::InText(i) => starts.text_len - i,
            Named::InData(i) => starts.data_len - i,
            Named::InStack(i) => 65536 - starts.stack_start - i,
            Named::Nothing => 0,
        }
    }

    /// Copies bytes that stand from a place on.
    #[inline(always)]
    fn get_part(&self, s: usize, starts: &Starts, from: Named, into: &mut [u8])
        requires starts { AreStarts self.now.kept s starts.now }
        requires within { IsWithin (image_of self.now.kept s) from }
        requires few { length into.old ≤ room (image_of self.now.kept s) from }
        requires some { 0 < length into.old }
        ensures { into.new ≡ run_at (image_of self.now.kept s) from (length into.old) }
    {
        self.memory.get(starts.start_of(from), into);
    }

    /// Writes bytes in place of those that stand from a place on.
    #[inline(always)]
    fn put_part(&mut self, s: usize, starts: &Starts, to: Named, bytes: &[u8])
        requires starts { AreStarts self.old.kept s starts.now }
        requires within { IsWithin (image_of self.old.kept s) to }
        requires few { length bytes.now ≤ room (image_of self.old.kept s) to }
        requires some { 0 < length bytes.now }
        requires storable { IsStorable to }
        ensures kept { self.new.kept ≡ with_image self.old.kept s (with_run (image_of self.old.kept s) to bytes.now) }
        ensures starts { AreStarts self.new.kept s starts.now }
        ensures outside { outside_of self.new s ≡ outside_of self.old s }
    {
        self.memory.put(starts.start_of(to), bytes);
    }

    /// Gets up to 512 bytes from an address on, all of them, or says false where one of them cannot be read.
    pub(crate) fn copy_in(&self, s: usize, starts: &Starts, at: u16, into: &mut [u8]) -> bool
        requires starts { AreStarts self.now.kept s starts.now }
        requires few { length into.old ≤ 512 }
        requires formed { IsImage (image_of self.now.kept s) }
        ensures done { result ≡ true → load_bytes (image_of self.now.kept s) at (length into.old) ≡ Some into.new }
        ensures refused { result ≡ false → load_bytes (image_of self.now.kept s) at (length into.old) ≡ None }
    {
        let mut done = 0;
        while done < into.len() {
            let from = self.find(s, starts, at.wrapping_add(done as u16));
            let count = self.room(s, starts, from).min(into.len() - done);
            if count == 0 {
                return false;
            }
            self.get_part(s, starts, from, &mut into[done..done + count]);
            done += count;
        }
        true
    }

    /// Whether so many bytes can be written from an address on.
    fn can_set(&self, s: usize, starts: &Starts, at: u16, count: usize) -> bool
        requires starts { AreStarts self.now.kept s starts.now }
        requires few { count ≤ 512 }
        requires formed { IsImage (image_of self.now.kept s) }
        ensures each { result ≡ true → (k : ℕ) → k < count → is_writable (image_of self.now.kept s) ((at + k) % 65536) ≡ true }
        ensures refused { result ≡ false → (bytes : List ℕ) → length bytes ≡ count → store_bytes (image_of self.now.kept s) at bytes ≡ None }
    {
        let mut done = 0;
        while done < count {
            let to = self.find(s, starts, at.wrapping_add(done as u16));
            if !is_storable(to) {
                return false;
            }
            done += self.room(s, starts, to);
        }
        true
    }

    /// Puts up to 512 bytes from an address on, whole or not at all: false where one of them cannot be written, and then
    /// nothing has changed.
    pub(crate) fn copy_out(&mut self, s: usize, starts: &Starts, at: u16, bytes: &[u8]) -> bool
        requires starts { AreStarts self.old.kept s starts.now }
        requires few { length bytes.now ≤ 512 }
        requires formed { IsImage (image_of self.old.kept s) }
        ensures done { result ≡ is_some (store_bytes (image_of self.old.kept s) at bytes.now) }
        ensures kept { self.new.kept
            ≡ with_image self.old.kept s
            (image_or (image_of self.old.kept s) (store_bytes (image_of self.old.kept s) at bytes.now)) }
        ensures starts { AreStarts self.new.kept s starts.now }
        ensures outside { outside_of self.new s ≡ outside_of self.old s }
    {
        let first = self.find(s, starts, at);
        if !bytes.is_empty() && is_storable(first) && bytes.len() <= self.room(s, starts, first) {
            self.put_part(s, starts, first, bytes);
            return true;
        }
        self.copy_out_parts(s, starts, at, bytes)
    }

    /// The same where not all of them stand in one list.
    #[cold]
    #[inline(never)]
    fn copy_out_parts(&mut self, s: usize, starts: &Starts, at: u16, bytes: &[u8]) -> bool
        requires starts { AreStarts self.old.kept s starts.now }
        requires few { length bytes.now ≤ 512 }
        requires formed { IsImage (image_of self.old.kept s) }
        ensures done { result ≡ is_some (store_bytes (image_of self.old.kept s) at bytes.now) }
        ensures kept { self.new.kept
            ≡ with_image self.old.kept s
            (image_or (image_of self.old.kept s) (store_bytes (image_of self.old.kept s) at bytes.now)) }
        ensures starts { AreStarts self.new.kept s starts.now }
        ensures outside { outside_of self.new s ≡ outside_of self.old s }
    {
        if !self.can_set(s, starts, at, bytes.len()) {
            return false;
        }
        let mut done = 0;
        while done < bytes.len() {
            let to = self.find(s, starts, at.wrapping_add(done as u16));
            let count = self.room(s, starts, to).min(bytes.len() - done);
            self.put_part(s, starts, to, &bytes[done..done + count]);
            done += count;
        }
        true
    }
}
