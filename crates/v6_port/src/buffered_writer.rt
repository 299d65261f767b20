// A buffer in front of a writer.
ghost use Rattle.std.specs.Prelude.{◌≡◌, ◌<◌, ◌≤◌, true, false, [], length, take, drop, IsOk, IsOkAnd, OnOk};
ghost use Rattle.std.specs.Io.KnownBytes.{Keeps, Appends, WriteAppends, append_known};
ghost use Rattle.std.specs.Io.{WritesAtMost};
ghost use Rattle.arrayvec.specs.ArrayVec.{array_vec_len};

use arrayvec::ArrayVec;
use std::io;
use std::io::{ErrorKind, Write};

/// How many bytes a buffer holds.
const SIZE: usize = 2048;

/// A writer with a buffer that lies in the value itself, where std's `BufWriter` takes memory for it.
///
/// The bytes go to the writer where the buffer is full and more are to be written, at `flush`, and when this
/// is let go. What a failure leaves is kept, and is tried again; no byte is given out twice.
pub(crate) struct BufferedWriter<W: Write + Drop> {
    inner: W,
    buffer: ArrayVec<u8, SIZE>,
    given: usize,
    ghost is_front: { given ≤ array_vec_len buffer },
}

impl<W: Write + Drop> BufferedWriter<W> {
    pub(crate) fn new(inner: W) -> Self
        ensures inner { result.inner ≡ inner }
        ensures empty { result.buffer.items ≡ [] }
    {
        BufferedWriter {
            inner,
            buffer: ArrayVec::new(),
            given: 0,
        }
    }

    // Whether there was room for a piece, which is in the buffer then. The bytes of a terminal come one by one.
    #[inline(always)]
    pub(crate) fn takes(&mut self, piece: &[u8]) -> bool
        ensures taken { result ≡ true
            → Appends (append_known (W.contents self.old.inner) (drop self.old.given self.old.buffer.items))
            (append_known (W.contents self.new.inner) (drop self.new.given self.new.buffer.items)) piece.now }
        ensures kept { result ≡ false
            → append_known (W.contents self.new.inner) (drop self.new.given self.new.buffer.items)
            ≡ append_known (W.contents self.old.inner) (drop self.old.given self.old.buffer.items) }
        ensures len { result ≡ false → array_vec_len self.new.buffer ≡ array_vec_len self.old.buffer }
    {
        if let [byte] = piece {
            if !self.buffer.is_full() {
                self.buffer.push(*byte);
                return true;
            }
        }
        self.buffer.try_extend_from_slice(piece).is_ok()
    }

    // What the writer doesn't take stays.
    fn give_out(&mut self) -> io::Result<()>
        ensures bytes { Keeps (append_known (W.contents self.old.inner) (drop self.old.given self.old.buffer.items))
            (append_known (W.contents self.new.inner) (drop self.new.given self.new.buffer.items)) }
        ensures empty { OnOk result (array_vec_len self.new.buffer ≡ 0) }
    {
        let rest = &self.buffer.as_slice()[self.given..];
        let (count, result) = write_out(rest, &mut self.inner);
        if let Err(error) = result {
            self.given += count;
            return Err(error);
        }
        self.given = 0;
        self.buffer.clear();
        Ok(())
    }

    fn make_room(&mut self) -> io::Result<()>
        ensures bytes { Keeps (append_known (W.contents self.old.inner) (drop self.old.given self.old.buffer.items))
            (append_known (W.contents self.new.inner) (drop self.new.given self.new.buffer.items)) }
        ensures room { OnOk result (array_vec_len self.new.buffer < SIZE) }
        ensures holds { array_vec_len self.old.buffer < SIZE → IsOk result }
    {
        if !self.buffer.is_full() {
            return Ok(());
        }
        self.give_out()
    }

    #[cold]
    #[inline(never)]
    fn write_piece(&mut self, piece: &[u8]) -> io::Result<usize>
        ensures bound { WritesAtMost result piece.now }
        ensures bytes { WriteAppends (append_known (W.contents self.old.inner) (drop self.old.given self.old.buffer.items))
            (append_known (W.contents self.new.inner) (drop self.new.given self.new.buffer.items)) result piece.now }
        ensures holds { array_vec_len self.old.buffer < SIZE → IsOkAnd result (λ n. 0 < length piece.now → 0 < n) }
    {
        self.make_room()?;
        self.buffer.write(piece)
    }
}

impl<W: Write + Drop> Write for BufferedWriter<W> {
    ghost contents = { λ w. append_known (W.contents w.inner) (drop w.given w.buffer.items) };

    fn write(&mut self, piece: &[u8]) -> io::Result<usize>
        ensures bound { WritesAtMost result piece.now }
        ensures bytes { WriteAppends (append_known (W.contents self.old.inner) (drop self.old.given self.old.buffer.items))
            (append_known (W.contents self.new.inner) (drop self.new.given self.new.buffer.items)) result piece.now }
        ensures holds { array_vec_len self.old.buffer < SIZE → IsOkAnd result (λ n. 0 < length piece.now → 0 < n) }
    {
        if self.takes(piece) {
            return Ok(piece.len());
        }
        self.write_piece(piece)
    }

    fn flush(&mut self) -> io::Result<()>
        ensures bytes { Keeps (append_known (W.contents self.old.inner) (drop self.old.given self.old.buffer.items))
            (append_known (W.contents self.new.inner) (drop self.new.given self.new.buffer.items)) }
        ensures empty { OnOk result (array_vec_len self.new.buffer ≡ 0) }
    {
        self.give_out()?;
        self.inner.flush()
    }
}

impl<W: Write + Drop> Drop for BufferedWriter<W> {
    // Nobody is left to be told of a failure.
    fn drop(mut self) {
        let _ = self.give_out();
        let BufferedWriter {
            inner: _inner,
            buffer: _,
            given: _,
        } = self;
    }
}

// Writes until all is written or a write fails, and says how many bytes were written.
fn write_out<W: Write>(bytes: &[u8], to: &mut W) -> (usize, io::Result<()>)
    ensures bound { result.0 ≤ length bytes.now }
    ensures all { OnOk result.1 (result.0 ≡ length bytes.now) }
    ensures bytes { Appends (W.contents to.old) (W.contents to.new) (take result.0 bytes.now) }
{
    let mut written = 0;
    while written < bytes.len() {
        match to.write(&bytes[written..]) {
            Ok(0) => return (written, Err(io::Error::from(ErrorKind::WriteZero))),
            Ok(count) => written += count,
            Err(error) => return (written, Err(error)),
        }
    }
    (written, Ok(()))
}
