//! Streams that give few bytes at once, fail, or end and go on.

use crate::captures::back;
use std::alloc::{AllocError, Global};
use std::io;
use std::io::{ErrorKind, Read};

/// A stream that gives its bytes, at most `step` in a read, and fails at one of its calls.
#[derive(Drop)]
pub struct Halting {
    /// All its bytes.
    pub bytes: Vec<u8>,
    /// How many of the bytes it has given.
    pub taken: usize,
    /// The most bytes of one read.
    pub step: usize,
    /// The number of the call that fails, counted from 1.
    pub fails_at: usize,
    /// How many calls fail, from that one on.
    pub fails_for: usize,
    /// The kind of the failure.
    pub kind: ErrorKind,
    /// How many calls were made.
    pub calls: usize,
    /// The largest buffer that a call was given, in bytes.
    pub most_room: usize,
    /// How many calls found no byte left.
    pub ends: usize,
    /// How many calls were given a buffer that began with a zero, as a new buffer does.
    pub clear: usize,
}

impl Halting {
    /// Makes a stream of these bytes that never fails.
    pub fn new(alloc: Global, bytes: &[u8], step: usize) -> Result<Halting, AllocError> {
        Ok(Halting {
            bytes: Vec::from_slice(alloc, bytes)?,
            taken: 0,
            step,
            fails_at: 0,
            fails_for: 1,
            kind: ErrorKind::Other,
            calls: 0,
            most_room: 0,
            ends: 0,
            clear: 0,
        })
    }

    // Returns whether the latest call is to fail.
    fn fails(&self) -> bool {
        self.fails_at > 0
            && self.calls >= self.fails_at
            && self.calls - self.fails_at < self.fails_for
    }

    // Records what a call finds, and the buffer that it was given.
    fn note(&mut self, buf: &[u8]) {
        self.calls = self.calls.saturating_add(1);
        self.most_room = self.most_room.max(buf.len());
        if buf.first() == Some(&0) {
            self.clear = self.clear.saturating_add(1);
        }
        if self.taken >= self.bytes.len() {
            self.ends = self.ends.saturating_add(1);
        }
    }
}

impl Read for Halting {
    fn read(&mut self, buf: &mut [u8]) -> io::Result<usize> {
        self.note(buf);
        if self.fails() {
            return Err(io::Error::from(self.kind));
        }
        let left = back(self.bytes.as_slice(), self.taken);
        let n = buf.len().min(self.step).min(left.len());
        let (given, _) = left.split_at(n);
        buf[..n].copy_from_slice(given);
        self.taken = self.taken.saturating_add(n);
        Ok(n)
    }
}

/// A stream that gives the first bytes, at most `step` in a read, ends once, and then gives the second bytes.
#[derive(Drop)]
pub struct EndsOnce<'a> {
    /// The bytes before its end.
    pub first: &'a [u8],
    /// The bytes after its end.
    pub second: &'a [u8],
    /// The most bytes of one read.
    pub step: usize,
    /// Whether it has ended once.
    pub has_ended: bool,
}

impl Read for EndsOnce<'_> {
    fn read(&mut self, buf: &mut [u8]) -> io::Result<usize> {
        if self.first.is_empty() && !self.has_ended {
            self.has_ended = true;
            return Ok(0);
        }
        let from = if self.has_ended {
            self.second
        } else {
            self.first
        };
        let n = buf.len().min(self.step).min(from.len());
        let (given, left) = from.split_at(n);
        buf[..n].copy_from_slice(given);
        if self.has_ended {
            self.second = left;
        } else {
            self.first = left;
        }
        Ok(n)
    }
}
