//! The captures that the program reads.

ghost use Rattle.std.specs.Prelude.{◌≡◌, IfErr, IfOk, None};
ghost use Rattle.std.specs.IoError.{error_kind};
ghost use Rattle.std.specs.declared.io.ErrorKind.TheVariants as kinds;
ghost use Rattle.pcapfile_files.specs.Buffered.{left_in};

use crate::console::{Console, Shared};
use crate::digest::Hashing;
use crate::foreign::Foreign;
use crate::walk::Walk;
use pcap_program::Uninterrupted;
use std::alloc::Global;
use std::cell::Cell;
use std::fs::File;
use std::io;
use std::io::{BufReader, Read, Stdin};
use std::rc::Rc;

/// The size of the input buffer of a capture, in bytes.
const INPUT: usize = 262_144;

/// The file name that means standard input or standard output.
pub const STANDARD: &str = "-";

/// Returns a buffered reader of a stream. It repeats a read that a signal interrupts. Fails only if memory runs out.
pub fn buffered<R: Read + Drop>(alloc: Global, stream: R) -> io::Result<BufReader<Uninterrupted<R>>>
    ensures reads { IfOk result (λ input. left_in R.remaining input ≡ R.remaining stream) }
    ensures fails { IfErr result (λ e. error_kind e ≡ kinds.OutOfMemory) }
{
    BufReader::with_capacity(alloc, INPUT, Uninterrupted::new(stream))
}

/// The stream of a capture: a file, or standard input.
#[derive(Drop)]
pub(crate) enum Stream {
    Standard(Stdin),
    File(File),
}

impl Read for Stream {
    ghost remaining = { λ stream. None };

    fn read(&mut self, buf: &mut [u8]) -> io::Result<usize> {
        match self {
            Stream::Standard(stdin) => stdin.read(buf),
            Stream::File(file) => file.read(buf),
        }
    }
}

/// A capture whose progress is shown while it is read.
pub struct Watched {
    stream: Stream,
    length: Option<u64>,
    walk: Walk,
    progress: Option<Shared>,
    /// Whether no bytes have been read from it yet.
    is_new: bool,
    /// The shared place that records what the file is if it doesn't begin like a capture.
    foreign: Rc<Cell<Option<Foreign>>>,
    /// The digest of its bytes.
    hashing: Rc<Hashing>,
}

// It is written out, so that crates above this one call it and prove no drop of the fields.
impl Drop for Watched {
    fn drop(self) {
        let Watched {
            stream: _,
            length: _,
            walk: _,
            progress: _,
            is_new: _,
            foreign: _,
            hashing: _,
        } = self;
    }
}

impl Watched {
    /// Returns the length of the capture in bytes, if it is a regular file.
    pub fn length(&self) -> Option<u64> {
        self.length
    }
}

impl Read for Watched {
    ghost remaining = { λ stream. None };

    fn read(&mut self, buf: &mut [u8]) -> io::Result<usize> {
        let came = self.stream.read(buf)?;
        if self.is_new {
            self.is_new = false;
            self.foreign.set(Foreign::of_front(&buf[..came]));
        }
        self.hashing.add(&buf[..came]);
        if let Some(progress) = &self.progress {
            let packets = self.walk.pass(&buf[..came]);
            let mut now = progress.get();
            now.add(came, packets);
            progress.set(now);
        }
        Ok(came)
    }
}

fn open_stream(rt: &HostRuntime, name: &str) -> io::Result<Stream> {
    if name == STANDARD {
        return Ok(Stream::Standard(rt.stdin()));
    }
    Ok(Stream::File(File::open(rt, name)?))
}

// Returns the length of a stream in bytes, if it is a regular file.
fn length_of(stream: &Stream) -> io::Result<Option<u64>> {
    match stream {
        Stream::Standard(_) => Ok(None),
        Stream::File(file) => {
            let metadata = file.metadata()?;
            Ok(if metadata.is_file() {
                Some(metadata.len())
            } else {
                None
            })
        }
    }
}

/// Opens the capture with this name and starts to show its progress.
pub fn open_watched(console: &Console, name: &str) -> io::Result<Watched> {
    console.begin();
    open_further(console, name)
}

/// Opens the capture with this name beside others. The progress shown is that of all of them.
pub fn open_further(console: &Console, name: &str) -> io::Result<Watched> {
    let stream = open_stream(console.rt(), name)?;
    let length = length_of(&stream)?;
    Ok(Watched {
        stream,
        length,
        walk: Walk::new(),
        progress: console.add_capture(length)?,
        is_new: true,
        foreign: console.foreign()?,
        hashing: console.hashing()?,
    })
}
