//! An input whose next bytes can be read ahead.

ghost use Rattle.std.specs.Prelude.{◌≡◌, ◌<◌, ◌≤◌, ◌+◌, min, length, take, drop, IfOk, OnErr};
ghost use Rattle.std.specs.Io.KnownBytes.{Consumes, IsAtEnd, Keeps};

use std::io;
use std::io::{BufRead, Read};

/// The length of a packet's header in a classic capture, in bytes.
pub(crate) const HEAD: usize = 16;

/// The bytes that were read ahead, and then the rest of the input.
#[derive(Drop)]
pub(crate) struct Ahead<R> {
    held: [u8; HEAD],
    /// The number of bytes that were read ahead and not taken.
    len: usize,
    input: R,
    ghost within: { len ≤ 16 },
}

impl<R> Ahead<R> {
    ghost use Rattle.std.specs.Prelude.{[]};
    ghost use Rattle.pcapfile_selected.specs.Ahead.{held_in};

    /// Returns an input of which no bytes were read ahead.
    pub(crate) fn new(input: R) -> Ahead<R>
        ensures held { held_in result ≡ [] }
        ensures input { result.input ≡ input }
    {
        Ahead {
            held: [0; HEAD],
            len: 0,
            input,
        }
    }

    /// Returns the bytes that were read ahead and not taken.
    pub(crate) fn held(&self) -> &[u8]
        ensures { result.now ≡ held_in self.now }
    {
        &self.held[..self.len]
    }

    /// Returns the input after the bytes that were read ahead.
    pub(crate) fn input(&self) -> &R
        ensures { result.now ≡ self.now.input }
    {
        &self.input
    }
}

impl<R: Read> Ahead<R> {
    ghost use Rattle.std.specs.Prelude.{IfSome, OnOk};
    ghost use Rattle.pcapfile_selected.specs.Ahead.{HoldsMore, ReadsAhead, held_in, remaining_in};

    /// Reads the header of the next packet ahead, or as much of it as there is.
    pub(crate) fn read_ahead(&mut self) -> io::Result<()>
        ensures kept { Keeps (remaining_in R.remaining self.old) (remaining_in R.remaining self.new) }
        ensures ahead { OnOk result (IfSome (remaining_in R.remaining self.old) (λ bytes. held_in self.new ≡ take 16 bytes)) }
    {
        while self.len < HEAD {
            if !self.read_more()? {
                return Ok(());
            }
        }
        Ok(())
    }

    // Makes one read ahead. Returns false at the end of the input.
    fn read_more(&mut self) -> io::Result<bool>
        requires { self.old.len < 16 }
        ensures reads { OnOk result (ReadsAhead (held_in self.old) (held_in self.new) (R.remaining self.old.input) (R.remaining self.new.input)) }
        ensures more { IfOk result (λ is_more. HoldsMore self.old.len self.new.len (R.remaining self.new.input) is_more) }
        ensures held { OnErr result (held_in self.new ≡ held_in self.old) }
        ensures kept { OnErr result (Keeps (R.remaining self.old.input) (R.remaining self.new.input)) }
        ensures array { length self.new.held ≡ 16 }
    {
        let count = read_behind(&mut self.input, &mut self.held, self.len)?;
        self.len += count;
        Ok(count > 0)
    }

    // Takes this many of the bytes that were read ahead.
    fn take(&mut self, count: usize)
        requires { count ≤ self.old.len }
        ensures held { held_in self.new ≡ drop count (held_in self.old) }
        ensures input { self.new.input ≡ self.old.input }
    {
        self.held.rotate_left(count);
        self.len -= count;
    }
}

impl<R: BufRead> Ahead<R> {
    ghost use Rattle.std.specs.Prelude.{IsTrue};
    ghost use Rattle.pcapfile_selected.specs.Ahead.{remaining_in};

    /// Returns whether no byte follows.
    pub(crate) fn is_at_end(&mut self) -> io::Result<bool>
        ensures end { IfOk result (λ is. IsTrue is → IsAtEnd (remaining_in R.remaining self.old)) }
    {
        if self.len > 0 {
            return Ok(false);
        }
        Ok(self.input.fill_buf()?.is_empty())
    }
}

impl<R: Read> Read for Ahead<R> {
    ghost use Rattle.std.specs.Io.{ReadsAtMost};
    ghost use Rattle.std.specs.Io.KnownBytes.{ReadConsumes};
    ghost use Rattle.pcapfile_selected.specs.Ahead.{remaining_in};

    ghost remaining = { remaining_in R.remaining };

    fn read(&mut self, buf: &mut [u8]) -> io::Result<usize>
        ensures bound { ReadsAtMost result buf.new }
        ensures bytes { ReadConsumes (remaining_in R.remaining self.old) (remaining_in R.remaining self.new) result buf.new }
    {
        if self.len == 0 {
            return self.input.read(buf);
        }
        let count = copy_front(self.held(), buf);
        self.take(count);
        Ok(count)
    }
}

// Makes one read into the bytes from the index `at` on.
fn read_behind<R: Read>(input: &mut R, bytes: &mut [u8; HEAD], at: usize) -> io::Result<usize>
    requires { at < 16 }
    ensures front { take at bytes.new ≡ take at bytes.old }
    ensures fits { IfOk result (λ n. at + n ≤ 16) }
    ensures came { IfOk result (λ n. Consumes (R.remaining input.old) (R.remaining input.new) (take n (drop at bytes.new))) }
    ensures end { IfOk result (λ n. n ≡ 0 → IsAtEnd (R.remaining input.new)) }
    ensures kept { OnErr result (Keeps (R.remaining input.old) (R.remaining input.new)) }
    ensures array { length bytes.new ≡ 16 }
{
    input.read(&mut bytes[at..])
}

/// Copies the first bytes into the buffer, as many as fit, and returns how many.
pub(crate) fn copy_front(bytes: &[u8], buf: &mut [u8]) -> usize
    ensures count { result ≡ min (length bytes.now) (length buf.old) }
    ensures front { take result buf.new ≡ take result bytes.now }
    ensures len { length buf.new ≡ length buf.old }
{
    let count = bytes.len().min(buf.len());
    buf[..count].copy_from_slice(&bytes[..count]);
    count
}
