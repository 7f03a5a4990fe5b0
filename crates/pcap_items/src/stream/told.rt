//! Streams that remember whether a call of them failed.

ghost use Rattle.std.specs.Prelude.{◌≡◌, ◌<◌, ◌⊎◌, true, false, length, IfOk, OnErr, MatchResult};
ghost use Rattle.std.specs.Borrow.{sem, Lends};
ghost use Rattle.std.specs.Io.{ReadsAtMost, WritesAtMost};
ghost use Rattle.std.specs.Io.KnownBytes.{ReadConsumes, WriteAppends, Keeps};
ghost use Rattle.pcap_items.specs.contracts.stream.told.Told.{the_row as told-row};
ghost use Rattle.pcap_items.specs.Told.{stream_of, has_failed};
ghost use Rattle.pcap_items.specs.LentStreams.{told_with};

use std::io;
use std::io::{Read, Write};

/// A stream that remembers whether a call of it failed.
#[derive(Debug, Drop)]
pub struct Told<T> {
    pub(crate) inner: T,
    pub(crate) has_failed: bool,
}

impl<T> Told<T> {
    /// Wraps a stream. No call of it has failed yet.
    pub fn new(inner: T) -> Told<T>
        ensures stream { stream_of result ≡ inner }
        ensures unfailed { has_failed result ≡ false }
    {
        Told {
            inner,
            has_failed: false,
        }
    }

    /// Returns whether a call returned an error, or a write took none of the bytes that it was offered.
    pub fn failed(&self) -> bool
        ensures { result ≡ has_failed self.now }
    {
        self.has_failed
    }

    /// Returns the wrapped stream.
    pub fn get_ref(&self) -> &T
        ensures { result.now ≡ stream_of self.now }
    {
        &self.inner
    }

    /// Returns the wrapped stream. Failures of direct calls on it are not remembered.
    pub fn get_mut(&mut self) -> &mut T
        ensures value { result.now ≡ stream_of self.old }
        ensures* writes_back { sem 𝓛 (Lends (told-row T.row) T.row self.entry result (told_with self.old)) }
    {
        &mut self.inner
    }

    /// Returns the wrapped stream, and consumes the wrapper.
    pub fn into_inner(self) -> T
        ensures { result ≡ stream_of self }
    {
        self.inner
    }
}

impl<T: Read> Read for Told<T> {
    ghost remaining = { λ t. T.remaining (stream_of t) };

    fn read(&mut self, buf: &mut [u8]) -> io::Result<usize>
        ensures bound { ReadsAtMost result buf.new }
        ensures bytes { ReadConsumes (T.remaining (stream_of self.old)) (T.remaining (stream_of self.new)) result buf.new }
        ensures told { MatchResult result
            (λ _. has_failed self.new ≡ has_failed self.old) (λ _. has_failed self.new ≡ true) }
    {
        match self.inner.read(buf) {
            Ok(n) => Ok(n),
            Err(e) => {
                self.has_failed = true;
                Err(e)
            }
        }
    }
}

impl<T: Write> Write for Told<T> {
    ghost contents = { λ t. T.contents (stream_of t) };

    fn write(&mut self, buf: &[u8]) -> io::Result<usize>
        ensures bound { WritesAtMost result buf.now }
        ensures bytes { WriteAppends (T.contents (stream_of self.old)) (T.contents (stream_of self.new)) result buf.now }
        ensures err { OnErr result (has_failed self.new ≡ true) }
        ensures took_none { IfOk result (λ n. n ≡ 0 → 0 < length buf.now → has_failed self.new ≡ true) }
        ensures took_some { IfOk result (λ n. (0 < n) ⊎ (length buf.now ≡ 0) → has_failed self.new ≡ has_failed self.old) }
    {
        match self.inner.write(buf) {
            Ok(0) if !buf.is_empty() => {
                self.has_failed = true;
                Ok(0)
            }
            Ok(n) => Ok(n),
            Err(e) => {
                self.has_failed = true;
                Err(e)
            }
        }
    }

    fn flush(&mut self) -> io::Result<()>
        ensures bytes { Keeps (T.contents (stream_of self.old)) (T.contents (stream_of self.new)) }
        ensures told { MatchResult result
            (λ _. has_failed self.new ≡ has_failed self.old) (λ _. has_failed self.new ≡ true) }
    {
        match self.inner.flush() {
            Ok(()) => Ok(()),
            Err(e) => {
                self.has_failed = true;
                Err(e)
            }
        }
    }
}
