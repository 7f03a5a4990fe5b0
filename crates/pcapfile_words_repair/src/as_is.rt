//! Captures that are read leniently.

use pcap_damaged::{LeftOut, Scrap};
use pcap_file::{PcapError, ResultParsing};
use pcap_program::Exit;
use pcapfile_as_is::{BlockPacketLines, Counted, Gap, Position, Teller};
use pcapfile_files::{Console, Shown, open_watched, tell_changed};
use pcapfile_lenient::{FileRows, LeftOutHeads, Named, Standing, Stop, message_of};
use pcapfile_rows::{Change, HEADER};
use pcapfile_run::Format;
use std::alloc::{AllocError, Global};
use std::io::Write;

/// The most packets or blocks that are reported.
pub(crate) const MOST: u64 = 18_446_744_073_709_551_614;

/// A capture that is read leniently, row by row: a row is what is between two gaps.
#[derive(Drop)]
pub(crate) struct Telling {
    /// The next row. `None` after the end.
    standing: Option<Standing>,
    /// The capture's format.
    pub(crate) format: Format,
    /// The position up to which the capture has been reported.
    pub(crate) position: Position,
    /// The error that ended the capture early: `IncompleteBuffer` if it is truncated there.
    pub(crate) fault: Option<PcapError>,
    /// The number of packets or blocks whose length or end was changed.
    pub(crate) changed: u64,
    /// The numbers of bytes that the last block had and now has, if its end was missing.
    pub(crate) completed: Option<(u64, u64)>,
    /// The number of reports on packets or blocks.
    reported: u64,
}

/// The lines that are written about blocks.
#[derive(Clone, Copy)]
pub(crate) enum BlockLines<'a> {
    /// A line for each flaw, after this prefix.
    Flaws(&'a str),
    /// A line for each packet.
    Packets,
}

/// What is between two rows.
#[derive(Clone, Copy)]
pub(crate) enum Between {
    /// A gap.
    Gap(Gap),
    /// A report on the next packet or block, or on the last packet.
    Change(Change),
}

impl Telling {
    /// Opens the capture of this name. It returns errors of reads and of memory.
    pub(crate) fn open(console: &Console, name: &str) -> ResultParsing<Telling> {
        let stream = open_watched(console, name)?;
        let (standing, variant) = Standing::open(console.alloc(), stream)?;
        if let Some(variant) = variant {
            let shown = Shown(name);
            let left_out = LeftOutHeads(variant);
            eprintln!(console.for_line(); "pcapfile: {shown}: {left_out}")?;
            // No later message names the variant again.
            tell_changed(console, name)?;
        }
        let (format, bytes) = opening_of(&standing);
        Ok(Telling {
            standing: Some(standing),
            format,
            position: Position::new(bytes),
            fault: None,
            changed: 0,
            completed: None,
            reported: 0,
        })
    }

    /// Returns the message of a report. A caller that counts only packets names no number of a block.
    pub(crate) fn text_of(
        &self,
        alloc: Global,
        change: &Change,
        counts_blocks: bool,
    ) -> Result<String, AllocError> {
        let named = match self.format {
            Format::Pcap => Named::Packet,
            Format::PcapNg if counts_blocks => Named::Block,
            Format::PcapNg => Named::AnyBlock,
        };
        message_of(alloc, change, named, &self.position.counted)
    }

    /// Reports the packets or blocks before the next gap or report, and returns that. `None` after the end. It returns
    /// the errors of the teller.
    pub(crate) fn tell_row<P: Teller, W: Write>(
        &mut self,
        alloc: Global,
        packets: &mut P,
        blocks: BlockLines<'_>,
        output: &mut W,
    ) -> Result<Option<Between>, Exit> {
        for _ in 0..u64::MAX {
            let Some(standing) = self.standing.take() else {
                break;
            };
            let (between, is_at_end) = match rows_of(&standing) {
                Some(rows) => (self.between(rows), rows.is_at_end()),
                None => (None, false),
            };
            if is_at_end {
                return Ok(between);
            }
            if between.is_some() {
                self.standing = Some(standing);
                return Ok(between);
            }
            self.standing = self.tell_on(alloc, standing, packets, blocks, output)?;
        }
        Ok(None)
    }

    // Returns the gap or the report that ended a row, if that is new.
    fn between(&mut self, rows: &FileRows) -> Option<Between> {
        if let Some(gap) = self.pass(rows.left_out()) {
            return Some(Between::Gap(gap));
        }
        let changed = rows.changed();
        if changed.count == self.reported {
            return None;
        }
        self.reported = changed.count;
        let last = changed.last?;
        self.count(last);
        Some(Between::Change(last))
    }

    // Counts a change of a packet or block.
    fn count(&mut self, change: Change) {
        if let Change::CutOff { present, whole } = change {
            self.completed = Some((present as u64, whole as u64));
        }
        if let Change::Length { .. } | Change::CutOff { .. } = change {
            self.changed = self.changed.saturating_add(1);
        }
    }

    // Counts a gap and returns it. `None` for a truncated packet or block, which is no gap and ends the capture.
    fn pass(&mut self, left_out: LeftOut) -> Option<Gap> {
        let before = self.position;
        let gap = self.position.pass(left_out)?;
        if let Scrap::PacketFront | Scrap::BlockFront = gap.scrap {
            self.position = before;
            self.fault = Some(PcapError::IncompleteBuffer(1));
            return None;
        }
        Some(gap)
    }

    // Reports a row, and returns the next one. `None` if that can't be read.
    fn tell_on<P: Teller, W: Write>(
        &mut self,
        alloc: Global,
        standing: Standing,
        packets: &mut P,
        blocks: BlockLines<'_>,
        output: &mut W,
    ) -> Result<Option<Standing>, Exit> {
        let counted = &mut self.position.counted;
        match tell(alloc, standing, packets, blocks, output, counted) {
            Ok(standing) => Ok(Some(standing)),
            Err(Stop::Untold(exit)) => Err(exit),
            Err(Stop::Unread(error)) => {
                self.fault = Some(error);
                Ok(None)
            }
        }
    }
}

// Returns the format of the capture, and the length of its opening in bytes.
fn opening_of(standing: &Standing) -> (Format, u64) {
    match standing {
        Standing::Packets(..) => (Format::Pcap, HEADER as u64),
        Standing::Blocks(_) => (Format::PcapNg, 0),
        Standing::Neither(format, _) => (*format, 0),
    }
}

// Returns the rows of the capture, if it has packets or blocks.
fn rows_of(standing: &Standing) -> Option<&FileRows> {
    match standing {
        Standing::Packets(_, rows) => Some(rows.rows()),
        Standing::Blocks(rows) => Some(rows.rows()),
        Standing::Neither(..) => None,
    }
}

// Reports the next row.
fn tell<P: Teller, W: Write>(
    alloc: Global,
    standing: Standing,
    packets: &mut P,
    blocks: BlockLines<'_>,
    output: &mut W,
    counted: &mut Counted,
) -> Result<Standing, Stop> {
    match standing {
        Standing::Packets(opening, rows) => {
            let rows = rows.tell(alloc, packets, output, MOST, counted)?;
            Ok(Standing::Packets(opening, rows))
        }
        Standing::Blocks(rows) => {
            let rows = match blocks {
                BlockLines::Flaws(prefix) => {
                    rows.tell_flaws(alloc, prefix, output, MOST, counted)?
                }
                BlockLines::Packets => {
                    rows.tell(alloc, &mut BlockPacketLines, output, MOST, counted)?
                }
            };
            Ok(Standing::Blocks(rows))
        }
        Standing::Neither(_, error) => Err(Stop::Unread(error)),
    }
}
