//! Looking ahead at the bytes of a capture before they are read.

ghost use Rattle.std.specs.Prelude.{◌≡◌};
ghost use Rattle.pcapfile_rows.specs.Opened.{bytes_in};

use crate::packets::ROW;
use crate::undo::Undo;
use pcap_damaged::first_packets;
use pcap_file::{Endianness, PcapParser};
use pcap_tolerant_captures::first_blocks;
use pcap_tolerant_captures::resync::resync_section;
use pcap_variants::Variant;
use std::alloc::Global;
use std::io;
use std::io::BufRead;

/// The number of bytes that are looked at at once.
pub(crate) const WINDOW: usize = 2_097_152;

/// The items to look for after corrupt bytes.
#[derive(Clone, Copy)]
pub(crate) enum Sought<'a> {
    /// Packets, read by a parser with the capture's header, and near this time in seconds.
    Packets(&'a PcapParser, u32),
    /// Blocks of a section in this byte order.
    Blocks(Endianness),
    /// A section header.
    Section,
}

/// The result of skipping bytes up to an item.
#[derive(Clone, Copy)]
pub(crate) struct Passed {
    /// The number of skipped bytes.
    pub(crate) bytes: u64,
    /// Whether an item follows them. If not, the input is at its end.
    pub(crate) is_found: bool,
}

/// A window over the next bytes of an input: as many as were requested, or more, up to the end of the input.
#[derive(Drop)]
pub(crate) struct Window<R> {
    input: R,
    room: Vec<u8>,
    /// The number of bytes in the buffer that were consumed.
    passed: usize,
    /// Whether nothing follows the bytes in the buffer.
    is_all: bool,
    /// What is undone in the bytes of the input, if anything is.
    undo: Option<Undo>,
}

/// The bytes of a window after what was done to the input was undone.
#[derive(Drop)]
pub(crate) struct Undone {
    room: Vec<u8>,
    undo: Undo,
}

impl Undone {
    /// Returns the bytes.
    pub(crate) fn bytes(&self) -> &[u8] {
        self.room.as_slice()
    }
}

impl Sought<'_> {
    // Returns the first offset at which these items are found, which for packets is below this bound.
    fn first(self, bytes: &[u8], bound: usize) -> Option<usize> {
        match self {
            Sought::Packets(parser, time) => first_packets(parser, time, bytes, bound),
            Sought::Blocks(order) => first_blocks(order, bytes),
            Sought::Section => resync_section(bytes),
        }
    }
}

impl<R> Window<R> {
    /// Returns a window over an input from which nothing was read yet.
    pub(crate) fn new(alloc: Global, input: R) -> Window<R> {
        Window {
            input,
            room: Vec::new(alloc),
            passed: 0,
            is_all: false,
            undo: None,
        }
    }

    /// Returns the bytes in the window after a text-mode transfer of the input is undone.
    pub(crate) fn undone(&self, alloc: Global) -> io::Result<Undone> {
        let mut room = Vec::new(alloc);
        let undo = Undo::transfer(&mut room, self.shown())?;
        self.finished(room, undo)
    }

    /// Returns the bytes in the window as those of a plain capture, if the input is a capture of this variant.
    pub(crate) fn plain(&self, alloc: Global, variant: Variant) -> io::Result<Undone> {
        let mut room = Vec::new(alloc);
        let undo = Undo::variant(alloc, variant, &mut room, self.shown())?;
        self.finished(room, undo)
    }

    // Returns these bytes, and the rest if nothing follows the window.
    fn finished(&self, mut room: Vec<u8>, mut undo: Undo) -> io::Result<Undone> {
        if self.is_all {
            undo.finish(&mut room)?;
        }
        Ok(Undone { room, undo })
    }

    /// Puts these bytes into the window, and goes on undoing in the bytes behind it.
    pub(crate) fn put_undone(&mut self, undone: Undone) {
        let Undone { room, undo } = undone;
        self.room = room;
        self.passed = 0;
        self.undo = Some(undo);
    }

    /// Returns the bytes in the window.
    pub(crate) fn shown(&self) -> &[u8]
        ensures { result.now ≡ bytes_in self.now }
    {
        self.room.get(self.passed..).unwrap_or_default()
    }

    /// Consumes this many of these bytes.
    pub(crate) fn pass(&mut self, bytes: usize) {
        self.passed = self.passed.saturating_add(bytes);
    }

    // Returns the number of places at which a row doesn't go on after the bytes in the window.
    fn sure(&self, is_all: bool) -> usize {
        let len = self.shown().len();
        if is_all {
            return len;
        }
        len.saturating_sub(ROW)
    }

    // Returns the bytes that are searched at once for these items, and the number of places in them at which more bytes would change nothing.
    fn searched(&self, sought: Sought<'_>, is_all: bool) -> (&[u8], usize) {
        match (sought, self.shown().get(0..WINDOW)) {
            (Sought::Packets(..), Some(front)) if !is_all => (front, WINDOW - ROW),
            _ => (self.shown(), self.sure(is_all)),
        }
    }

    /// Puts other bytes into the window, from this offset on.
    pub(crate) fn put(&mut self, offset: usize, bytes: &[u8]) {
        let from = self.passed.saturating_add(offset);
        for (place, byte) in self.room.iter_mut().skip(from).zip(bytes) {
            *place = *byte;
        }
    }

    // Drops the consumed bytes once they outnumber the rest, so that a move never copies more bytes than were consumed.
    fn let_go(&mut self) {
        let len = self.room.len();
        if self.passed >= len {
            self.room.clear();
        } else if self.passed > len - self.passed {
            self.room.copy_within(self.passed..len, 0);
            self.room.truncate(len - self.passed);
        } else {
            return;
        }
        self.passed = 0;
    }
}

impl<R: BufRead> Window<R> {
    /// Extends the window by this many bytes, and returns whether there are as many.
    pub(crate) fn show(&mut self, more: usize) -> io::Result<bool> {
        self.let_go();
        let wanted = self.shown().len().saturating_add(more);
        for _ in 0..u64::MAX {
            if self.shown().len() >= wanted {
                return Ok(true);
            }
            if !self.take()? {
                break;
            }
        }
        Ok(false)
    }

    /// Extends the window to this many bytes, and returns whether there are as many.
    pub(crate) fn reach(&mut self, bytes: usize) -> io::Result<bool> {
        let missing = bytes.saturating_sub(self.shown().len());
        if missing == 0 {
            return Ok(true);
        }
        self.show(missing)
    }

    /// Extends the window so that rows at its front can be found, and returns the number of places where they can.
    pub(crate) fn reach_row(&mut self) -> io::Result<usize> {
        let is_all = !self.reach(WINDOW)?;
        Ok(self.sure(is_all))
    }

    /// Skips bytes up to the first place where these items are found. It looks at enough bytes at once to be sure that the place is the
    /// first one, except for longer blocks.
    pub(crate) fn pass_to(&mut self, sought: Sought<'_>) -> io::Result<Passed> {
        let mut bytes: u64 = 0;
        for _ in 0..u64::MAX {
            let is_all = !self.reach(WINDOW)?;
            let (searched, sure) = self.searched(sought, is_all);
            let found = sought.first(searched, sure);
            let passed = found.unwrap_or(sure).min(sure);
            self.pass(passed);
            bytes = bytes.saturating_add(passed as u64);
            if is_all || found == Some(passed) {
                return Ok(Passed {
                    bytes,
                    is_found: found.is_some(),
                });
            }
        }
        Ok(Passed {
            bytes,
            is_found: false,
        })
    }

    // Moves the bytes of the input's buffer into the window, and returns whether there were any.
    fn take(&mut self) -> io::Result<bool> {
        if self.is_all {
            return Ok(false);
        }
        let came = self.input.fill_buf()?;
        let len = came.len();
        self.is_all = len == 0;
        match &mut self.undo {
            None => self.room.extend_from_slice(came)?,
            Some(undo) if len > 0 => undo.put(&mut self.room, came)?,
            Some(undo) => undo.finish(&mut self.room)?,
        }
        self.input.consume(len);
        Ok(len > 0 || self.undo.is_some())
    }
}
