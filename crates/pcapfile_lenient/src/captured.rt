//! Captures that are read unchanged or repaired.

ghost use Rattle.std.specs.Prelude.{None};

use crate::repaired::Repaired;
use pcap_file::ResultParsing;
use pcapfile_files::{Console, Watched, open_watched};
use std::io;
use std::io::Read;

/// A capture that is read unchanged or repaired.
pub enum Captured {
    /// The unchanged capture.
    Whole(Watched),
    /// The repaired capture.
    Repaired(Repaired),
}

// It is written out, so that crates above this one call it and prove no drop of the fields.
impl Drop for Captured {
    fn drop(self) {
        match self {
            Captured::Whole(_stream) => {}
            Captured::Repaired(_repaired) => {}
        }
    }
}

impl Captured {
    /// Returns the capture with this name and stream. It is repaired if `is_as_it_stands` is set. The errors are those of a repair.
    pub fn new(
        console: &Console,
        name: &str,
        stream: Watched,
        is_as_it_stands: bool,
    ) -> ResultParsing<Captured> {
        if is_as_it_stands {
            return Ok(Captured::Repaired(Repaired::new(console, name, stream)?));
        }
        Ok(Captured::Whole(stream))
    }

    /// Opens the capture with this name, and starts to show its progress.
    pub fn open(console: &Console, name: &str, is_as_it_stands: bool) -> ResultParsing<Captured> {
        let stream = open_watched(console, name)?;
        Captured::new(console, name, stream, is_as_it_stands)
    }

    /// Returns the length of the capture in bytes, if it is a regular file that is read unchanged.
    pub fn length(&self) -> Option<u64> {
        match self {
            Captured::Whole(stream) => stream.length(),
            Captured::Repaired(_) => None,
        }
    }
}

impl Read for Captured {
    ghost remaining = { λ capture. None };

    fn read(&mut self, buf: &mut [u8]) -> io::Result<usize> {
        match self {
            Captured::Whole(stream) => stream.read(buf),
            Captured::Repaired(repaired) => repaired.read(buf),
        }
    }
}
