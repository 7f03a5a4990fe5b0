//! The progress line on standard error.

use std::io::IsTerminal;
use std::time::Instant;

/// The time before the first progress line and between two of them, in milliseconds.
const SPAN: u64 = 1000;

const MILLION: u64 = 1_000_000;

/// The progress of the captures being read.
#[derive(Clone, Copy)]
pub(crate) struct Progress {
    rt: HostRuntime,
    /// The time when they were opened.
    begun: Instant,
    /// The total length of the captures in bytes, if known.
    length: Option<u64>,
    /// The number of bytes read.
    bytes: u64,
    /// The number of packets in these bytes.
    packets: u64,
    /// The milliseconds from the opening to the last progress line, or 0 if there was none.
    said: u64,
    /// Whether the progress line is on the screen.
    is_shown: bool,
}

impl Progress {
    /// Returns the progress before any capture is read, or `None` if standard error is not a terminal or the time isn't known.
    pub(crate) fn new(rt: &HostRuntime) -> Option<Progress> {
        if !rt.stderr().is_terminal() {
            return None;
        }
        Some(Progress {
            rt: *rt,
            begun: Instant::now(rt).ok()?,
            length: Some(0),
            bytes: 0,
            packets: 0,
            said: 0,
            is_shown: false,
        })
    }

    /// Returns the progress for other captures, before any of them is read.
    pub(crate) fn anew(self) -> Progress {
        Progress {
            begun: Instant::now(&self.rt).unwrap_or(self.begun),
            length: Some(0),
            bytes: 0,
            packets: 0,
            said: 0,
            ..self
        }
    }

    /// Adds a capture of this many bytes, if the length is known.
    pub(crate) fn add_length(&mut self, length: Option<u64>) {
        self.length = match (self.length, length) {
            (Some(before), Some(length)) => Some(before.saturating_add(length)),
            _ => None,
        };
    }

    /// Adds bytes that were read, and packets that begin in them, and shows the progress if it is time. A call with 0 bytes marks the end
    /// of a capture and clears the line. Each progress line replaces the one before.
    pub(crate) fn add(&mut self, bytes: usize, packets: u64) {
        self.bytes = self.bytes.saturating_add(bytes as u64);
        self.packets = self.packets.saturating_add(packets);
        if bytes == 0 {
            self.clear();
            return;
        }
        let Ok(elapsed) = self.begun.elapsed(&self.rt) else {
            return;
        };
        let millis = u64::try_from(elapsed.as_millis()).unwrap_or(u64::MAX);
        if millis >= self.said.saturating_add(SPAN) {
            self.said = millis;
            self.say(millis);
        }
    }

    // Shows the progress line. An error in writing it is ignored.
    fn say(&mut self, millis: u64) {
        let (read, packets) = (self.bytes / MILLION, self.packets);
        let rate = self.bytes.saturating_mul(1000) / millis.max(1) / MILLION;
        self.is_shown = true;
        let _ = match self.length {
            Some(length) => {
                let length = length / MILLION;
                eprint!(self.rt;
                    "{read} of {length} MB read, {packets} packets, {rate} MB a second\u{1b}[K\r"
                )
            }
            None => {
                eprint!(self.rt; "{read} MB read, {packets} packets, {rate} MB a second\u{1b}[K\r")
            }
        };
    }

    /// Clears the progress line.
    pub(crate) fn clear(&mut self) {
        if self.is_shown {
            self.is_shown = false;
            let _ = eprint!(self.rt; "\u{1b}[K");
        }
    }
}
