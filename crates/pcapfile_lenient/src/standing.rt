//! The items of a capture: packets or blocks in rows, without the corrupt bytes between them.

ghost use Rattle.std.specs.Prelude.{◌≡◌, ◌<◌, ◌^◌, false};
ghost use Rattle.pcap_tolerant.specs.ReaderAsIs.{is_done, has_failed};
ghost use Rattle.pcap_tolerant_captures.specs.ReaderAsIs.{is_done as is_done_with_blocks, has_failed as has_failed_in_blocks};

use pcap_file::{Endianness, PcapError, PcapParser, ResultParsing};
use pcap_program::{Exit, Uninterrupted};
use pcap_tolerant::ReaderAsIs;
use pcap_tolerant_captures::PcapNgReaderAsIs;
use pcap_variants::Variant;
use pcapfile_as_is::{BlockTeller, Counted, Teller, tell_blocks, tell_flaws, tell_packets};
use pcapfile_files::{Watched, buffered};
use pcapfile_rows::{Found, FoundPackets, LIMIT, Opened, Opening, Rows};
use pcapfile_run::Format;
use std::alloc::Global;
use std::io::{BufReader, Write};

/// A file that is read in rows.
pub type FileRows = Rows<BufReader<Uninterrupted<Watched>>>;

/// Packets in rows.
pub struct PacketRows {
    reader: ReaderAsIs<FileRows>,
    ghost ready: { is_done reader ≡ false },
    ghost unfailed: { has_failed reader ≡ false },
}

// It is written out, so that crates above this one call it and prove no drop of the fields.
impl Drop for PacketRows {
    fn drop(self) {
        let PacketRows { reader: _ } = self;
    }
}

/// Blocks in rows.
pub struct BlockRows {
    reader: PcapNgReaderAsIs<FileRows>,
    ghost ready: { is_done_with_blocks reader ≡ false },
    ghost unfailed: { has_failed_in_blocks reader ≡ false },
}

// It is written out, so that crates above this one call it and prove no drop of the fields.
impl Drop for BlockRows {
    fn drop(self) {
        let BlockRows { reader: _ } = self;
    }
}

/// The items of a capture.
#[derive(Drop)]
pub enum Standing {
    /// Packets, after a header of these bytes.
    Packets(Vec<u8>, PacketRows),
    /// Blocks.
    Blocks(BlockRows),
    /// Neither packets nor blocks: this error refuses it as a capture of this format.
    Neither(Format, PcapError),
}

/// The reason why no more of a capture was reported.
#[derive(Drop)]
pub enum Stop {
    /// The capture can't be read further.
    Unread(PcapError),
    /// The report can't be made or written.
    Untold(Exit),
}

impl PacketRows {
    /// Reports the packets to `teller` up to the end of their row, `most` at most, and counts them.
    pub fn tell<P: Teller, W: Write>(
        self,
        alloc: Global,
        teller: &mut P,
        output: &mut W,
        most: u64,
        counted: &mut Counted,
    ) -> Result<PacketRows, Stop> {
        let PacketRows { mut reader } = self;
        let mut now = counts(counted);
        let told = tell_packets(alloc, teller, &mut reader, output, most, &mut now);
        *counted = now;
        match told {
            Ok(None) => Ok(PacketRows { reader }),
            Ok(Some(error)) => Err(Stop::Unread(error)),
            Err(exit) => Err(Stop::Untold(exit)),
        }
    }

    /// Returns the rows that the packets come from.
    pub fn rows(&self) -> &FileRows {
        self.reader.get_ref()
    }

    /// Returns the byte order of the capture.
    pub fn endianness(&self) -> Endianness {
        self.reader.endianness()
    }
}

impl BlockRows {
    /// Reports the blocks to `teller` up to the end of their row, `most` at most, and counts them.
    pub fn tell<P: BlockTeller, W: Write>(
        self,
        alloc: Global,
        teller: &mut P,
        output: &mut W,
        most: u64,
        counted: &mut Counted,
    ) -> Result<BlockRows, Stop> {
        let BlockRows { mut reader } = self;
        let mut now = counts(counted);
        let told = tell_blocks(alloc, teller, &mut reader, output, most, &mut now);
        *counted = now;
        match told {
            Ok(None) => Ok(BlockRows { reader }),
            Ok(Some(error)) => Err(Stop::Unread(error)),
            Err(exit) => Err(Stop::Untold(exit)),
        }
    }

    /// Writes a line for each flaw of the blocks up to the end of their row, `most` at most, after the prefix, and counts the blocks.
    /// Options of blocks that it has read take no memory.
    pub fn tell_flaws<W: Write>(
        self,
        alloc: Global,
        prefix: &str,
        output: &mut W,
        most: u64,
        counted: &mut Counted,
    ) -> Result<BlockRows, Stop> {
        let BlockRows { mut reader } = self;
        let mut now = counts(counted);
        let told = tell_flaws(alloc, prefix, &mut reader, output, most, &mut now);
        *counted = now;
        match told {
            Ok(None) => Ok(BlockRows { reader }),
            Ok(Some(error)) => Err(Stop::Unread(error)),
            Err(exit) => Err(Stop::Untold(exit)),
        }
    }

    /// Returns the rows that the blocks come from.
    pub fn rows(&self) -> &FileRows {
        self.reader.get_ref()
    }
}

impl Standing {
    /// Returns the items of the capture in a stream, and its variant of classic captures, if it is of one. The errors are those of reads and
    /// of memory.
    pub fn open(alloc: Global, stream: Watched) -> ResultParsing<(Standing, Option<Variant>)> {
        let (opened, variant) = Opened::new(alloc, buffered(alloc, stream)?)?;
        Ok((Standing::of(alloc, opened)?, variant))
    }

    /// Returns the items with a given or guessed header if the capture has none, and what was found at the beginning. Undescribed interfaces
    /// are described.
    pub fn open_as(
        alloc: Global,
        stream: Watched,
        opening: Opening,
    ) -> ResultParsing<(Standing, Found)> {
        let (opened, found) = Opened::opened_as(alloc, buffered(alloc, stream)?, opening)?;
        Ok((Standing::of(alloc, opened)?, found))
    }

    // Returns readers of these items.
    fn of(
        alloc: Global,
        opened: Opened<BufReader<Uninterrupted<Watched>>>,
    ) -> ResultParsing<Standing> {
        Ok(match opened {
            Opened::Packets(found) => {
                let FoundPackets {
                    header,
                    opening,
                    rows,
                } = found;
                let parser = PcapParser::with_header(header)?;
                let reader = ReaderAsIs::with_parser(alloc, parser, rows, LIMIT);
                Standing::Packets(opening, PacketRows { reader })
            }
            Opened::Blocks(rows) => {
                let reader = PcapNgReaderAsIs::new(alloc, rows);
                Standing::Blocks(BlockRows { reader })
            }
            Opened::NoPackets(error) => Standing::Neither(Format::Pcap, error),
            Opened::NoBlocks(error) => Standing::Neither(Format::PcapNg, error),
        })
    }
}

// Returns a copy of these counts.
fn counts(counted: &Counted) -> Counted
    ensures items { result.items < 2 ^ 64 }
    ensures flawed { result.flawed < 2 ^ 64 }
    ensures bytes { result.bytes < 2 ^ 64 }
{
    Counted {
        items: counted.items.min(u64::MAX),
        flawed: counted.flawed.min(u64::MAX),
        bytes: counted.bytes.min(u64::MAX),
    }
}
