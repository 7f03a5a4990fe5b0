//! Writers that fail.

ghost use Rattle.std.specs.Prelude.{Some};

use std::alloc::Global;
use std::io;
use std::io::{ErrorKind, Write};

/// A writer that takes `room` bytes in all, at most `step` in a call. After that its calls, flushes too, fail or take nothing. One of its
/// calls is interrupted, which may be a flush, and one takes nothing.
#[derive(Debug, Drop)]
pub struct Narrow {
    pub out: Vec<u8>,
    pub room: usize,
    pub step: usize,
    pub fails: bool,
    pub calls: u64,
    pub interrupted: u64,
    pub idle: u64,
}

impl Narrow {
    /// Makes a writer for `room` bytes. No call is interrupted or takes nothing before that room is full.
    pub fn new(alloc: Global, room: usize, fails: bool) -> Narrow {
        Narrow {
            out: Vec::new(alloc),
            room,
            step: room,
            fails,
            calls: 0,
            interrupted: 0,
            idle: 0,
        }
    }

    /// Makes a writer that takes at most ten bytes in a call. The call with this number is interrupted, or takes nothing.
    pub fn halting(alloc: Global, call: u64, is_idle: bool) -> Narrow {
        let mut writer = Narrow::new(alloc, 1000, true);
        writer.step = 10;
        if is_idle {
            writer.idle = call;
        } else {
            writer.interrupted = call;
        }
        writer
    }
}

impl Write for Narrow {
    ghost contents = { λ w. Some w.out.items };

    fn write(&mut self, buf: &[u8]) -> io::Result<usize> {
        self.calls = self.calls.saturating_add(1);
        if self.calls == self.interrupted {
            return Err(io::Error::new(ErrorKind::Interrupted, "interrupted once"));
        }
        if self.calls == self.idle {
            return Ok(0);
        }
        let most = buf.len().min(self.room).min(self.step);
        if most == 0 && self.fails && !buf.is_empty() {
            return Err(io::Error::new(ErrorKind::Other, "told to fail"));
        }
        self.out.extend_from_slice(&buf[..most])?;
        self.room -= most;
        Ok(most)
    }

    fn flush(&mut self) -> io::Result<()> {
        self.calls = self.calls.saturating_add(1);
        if self.calls == self.interrupted {
            return Err(io::Error::new(ErrorKind::Interrupted, "interrupted once"));
        }
        if self.room == 0 && self.fails {
            return Err(io::Error::new(ErrorKind::Other, "told to fail"));
        }
        Ok(())
    }
}
