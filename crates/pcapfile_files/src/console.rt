//! Standard error: the progress line and messages about captures.

ghost use Rattle.std.specs.Prelude.{None};

use crate::digest::Hashing;
use crate::foreign::Foreign;
use crate::progress::Progress;
use pcap_program::Uninterrupted;
use std::alloc::{AllocError, Global};
use std::cell::Cell;
use std::io;
use std::io::{Stderr, Write};
use std::rc::Rc;

/// The progress of the captures being read, shared by all of them.
pub(crate) type Shared = Rc<Cell<Progress>>;

/// Standard error, and the runtime that the program gets from the host.
#[derive(Drop)]
pub struct Console {
    rt: HostRuntime,
    /// The progress of the captures being read, if the program shows it.
    progress: Option<Shared>,
    /// Whether a capture was found truncated or malformed.
    has_fault: Cell<bool>,
    /// What the file is whose first bytes were read last, if it is not a sound capture and no message has reported that yet.
    foreign: Rc<Cell<Option<Foreign>>>,
    /// The digest of the capture that is read.
    hashing: Rc<Hashing>,
}

impl Console {
    /// Returns a console that shows progress if standard error is a terminal, unless the console is quiet.
    pub fn new(rt: &HostRuntime, is_quiet: bool) -> Result<Console, AllocError> {
        let progress = match Progress::new(rt) {
            Some(progress) if !is_quiet => Some(Rc::new(rt.alloc(), Cell::new(progress))?),
            _ => None,
        };
        Ok(Console {
            rt: *rt,
            progress,
            has_fault: Cell::new(false),
            foreign: Rc::new(rt.alloc(), Cell::new(None))?,
            hashing: Rc::new(rt.alloc(), Hashing::idle())?,
        })
    }

    /// Returns the runtime that the program gets from the host.
    pub fn rt(&self) -> &HostRuntime {
        &self.rt
    }

    /// Returns the allocator of the program.
    pub fn alloc(&self) -> Global {
        self.rt.alloc()
    }

    /// Clears the progress line and returns the runtime, so that the caller can print a line on standard error.
    pub fn for_line(&self) -> &HostRuntime {
        self.clear();
        &self.rt
    }

    /// Clears the progress line.
    pub fn clear(&self) {
        clear(&self.progress);
    }

    /// Records that a capture is truncated or malformed.
    pub fn note_fault(&self) {
        self.has_fault.set(true);
    }

    /// Returns what the file is that a message is about, if it is not a capture and this is the first message about it.
    pub(crate) fn take_foreign(&self) -> Option<Foreign> {
        self.foreign.take()
    }

    /// Returns the shared place that records what a file is that is not a capture.
    pub(crate) fn foreign(&self) -> Result<Rc<Cell<Option<Foreign>>>, AllocError> {
        self.foreign.clone()
    }

    /// Begins the digest of the capture that is opened next.
    pub fn begin_digest(&self) {
        self.hashing.begin();
    }

    /// Returns the SHA-256 digest of the capture's bytes in hexadecimal digits, if one was begun and the capture was read to its end.
    pub fn take_digest(&self) -> Result<Option<String>, AllocError> {
        match self.hashing.end() {
            Some(digest) => Ok(Some(hex::encode(self.alloc(), digest.as_slice())?)),
            None => Ok(None),
        }
    }

    /// Returns the shared digest of the capture that is read.
    pub(crate) fn hashing(&self) -> Result<Rc<Hashing>, AllocError> {
        self.hashing.clone()
    }

    /// Returns whether a capture was found truncated or malformed.
    pub fn has_fault(&self) -> bool {
        self.has_fault.get()
    }

    /// Returns standard error for lines that are printed while a capture is read.
    pub fn notes(&self) -> Result<Notes, AllocError> {
        let progress = match &self.progress {
            Some(progress) => Some(progress.clone()?),
            None => None,
        };
        Ok(Notes {
            stderr: Uninterrupted::new(self.rt.stderr()),
            progress,
        })
    }

    /// Starts the progress anew, for other captures.
    pub fn begin(&self) {
        if let Some(progress) = &self.progress {
            progress.set(progress.get().anew());
        }
    }

    /// Adds a capture of this many bytes, if known, to the progress. Returns the progress if the program shows it.
    pub(crate) fn add_capture(&self, length: Option<u64>) -> Result<Option<Shared>, AllocError> {
        let Some(progress) = &self.progress else {
            return Ok(None);
        };
        let mut now = progress.get();
        now.add_length(length);
        progress.set(now);
        Ok(Some(progress.clone()?))
    }
}

fn clear(progress: &Option<Shared>) {
    if let Some(progress) = progress {
        let mut now = progress.get();
        now.clear();
        progress.set(now);
    }
}

/// Standard error that clears the progress line before each line.
#[derive(Drop)]
pub struct Notes {
    stderr: Uninterrupted<Stderr>,
    progress: Option<Shared>,
}

impl Write for Notes {
    ghost contents = { λ notes. None };

    fn write(&mut self, buf: &[u8]) -> io::Result<usize> {
        clear(&self.progress);
        self.stderr.write(buf)
    }

    fn flush(&mut self) -> io::Result<()> {
        self.stderr.flush()
    }
}
