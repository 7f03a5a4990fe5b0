//! The blocks before the packets of a merged capture.

ghost use Rattle.pcapfile_merge.specs.Holding.{IsReady};

use pcap_file::pcap::PcapHeader;
use pcap_file::pcapng::{
    InterfaceDescriptionBlock, InterfaceDescriptionOption, PcapNgWriter, SectionHeaderBlock,
};
use pcap_file::{LinkField, PcapError, ResultParsing};
use pcapfile_files::Shown;
use pcapfile_merge::{PacketOrder, Reader, Source, add_options, merge_packets};
use std::alloc::Global;
use std::io::{Read, Write};

/// The magic number of a little-endian section, high byte first.
const LITTLE: u32 = 0x4D3C2B1A;

/// How captures are merged.
#[derive(Clone, Copy)]
pub struct Joining<'a> {
    /// The allocator.
    pub alloc: Global,
    /// The order of the packets.
    pub order: PacketOrder,
    /// The names of the captures.
    pub names: &'a [&'a str],
}

/// A reader of a capture that has returned no error.
#[derive(Drop)]
pub struct Opened<R> {
    pub(crate) reader: Reader<R>,
    ghost ready: { IsReady reader },
}

impl<R> Opened<R> {
    /// Wraps a reader that has returned no error.
    pub fn new(reader: Reader<R>) -> Opened<R>
        requires { IsReady reader }
    {
        Opened { reader }
    }

    // Takes the options of the first section header, which the output has or comments on, away from what is left out.
    fn keep_options(&mut self) {
        if let Reader::Blocks(blocks) = &mut self.reader {
            blocks.keep_options();
        }
    }
}

impl<R: Read + Drop> Opened<R> {
    // Returns the body of the capture's first section header, if that has options.
    fn header(&self) -> Option<&[u8]> {
        match &self.reader {
            Reader::Blocks(blocks) if blocks.options() > 0 => Some(blocks.body()),
            _ => None,
        }
    }
}

/// The captures whose openings are not written yet. In a merge by time, the opening of a capture is what it gives before its first packet
/// with a time: its interfaces and other blocks. In a merge by file, it is the interfaces at the beginning.
#[derive(Drop)]
pub(crate) struct Openings<R> {
    alloc: Global,
    /// The order of the packets.
    pub(crate) order: PacketOrder,
    /// The captures, the last one first.
    waiting: Vec<Opened<R>>,
    /// The number of the output's next interface.
    pub(crate) interfaces: u64,
    /// How many interfaces after the first one are made of the header of a classic capture.
    pub(crate) of_headers: u64,
}

impl<R: Read + Drop> Openings<R> {
    /// Writes a section header for these captures, and returns their openings and the writer.
    pub(crate) fn begin<W: Write + Drop>(
        joining: Joining<'_>,
        readers: Vec<Opened<R>>,
        output: W,
    ) -> ResultParsing<(Openings<R>, PcapNgWriter<W>)> {
        let Joining { alloc, order, .. } = joining;
        let writer = put_header(joining, readers.as_slice(), output)?;
        let mut waiting = readers;
        waiting.reverse();
        let openings = Openings {
            alloc,
            order,
            waiting,
            interfaces: 0,
            of_headers: 0,
        };
        Ok((openings, writer))
    }

    /// Writes the next block of an opening, or makes a source of the next capture. Returns false if no opening is left.
    pub(crate) fn put_next<W: Write + Drop>(
        &mut self,
        sources: &mut Vec<Source<R>>,
        writer: &mut PcapNgWriter<W>,
    ) -> ResultParsing<bool> {
        // Only the source that was made last can be in its opening.
        let others = sources.len().saturating_sub(1);
        let last = sources.as_mut_slice().get_mut(others..).unwrap_or_default();
        if are_in_opening(last, self.order) {
            let merged = merge_packets(last, self.order, writer.get_mut(), 1, self.interfaces);
            self.interfaces = merged.interfaces;
            return match merged.fault {
                None => Ok(true),
                Some(error) => Err(error),
            };
        }
        match self.waiting.pop() {
            None => Ok(false),
            Some(opened) => {
                self.begin_source(opened, sources, writer)?;
                Ok(true)
            }
        }
    }

    // Makes a source of a capture, and writes the interface of a classic one.
    fn begin_source<W: Write + Drop>(
        &mut self,
        opened: Opened<R>,
        sources: &mut Vec<Source<R>>,
        writer: &mut PcapNgWriter<W>,
    ) -> ResultParsing<()> {
        let mut opened = opened;
        opened.keep_options();
        let Ok(base) = u32::try_from(self.interfaces) else {
            return Err(PcapError::InvalidField("Block: too many interfaces"));
        };
        if let Reader::Packets(packets) = &opened.reader {
            let interface = interface_under(self.alloc, packets.header())?;
            writer.write_pcapng_block(&interface)?;
            if self.interfaces > 0 {
                self.of_headers = self.of_headers.saturating_add(1);
            }
            self.interfaces = self.interfaces.saturating_add(1);
        }
        sources.push(Source::new(self.alloc, opened.reader, base))?;
        Ok(())
    }
}

/// Writes a section header, and the openings of the captures, which become sources. Returns the output and the number of its next
/// interface.
pub(crate) fn put_opening<R: Read + Drop, W: Write + Drop>(
    joining: Joining<'_>,
    readers: Vec<Opened<R>>,
    sources: &mut Vec<Source<R>>,
    output: W,
) -> ResultParsing<(W, u64)> {
    let (mut openings, mut writer) = Openings::begin(joining, readers, output)?;
    for _ in 0..u64::MAX {
        if !openings.put_next(sources, &mut writer)? {
            break;
        }
    }
    Ok((writer.into_writer(), openings.interfaces))
}

// Writes a little-endian section header with the options of the captures' first section headers.
fn put_header<R: Read + Drop, W: Write + Drop>(
    joining: Joining<'_>,
    readers: &[Opened<R>],
    output: W,
) -> ResultParsing<PcapNgWriter<W>> {
    let Joining { alloc, names, .. } = joining;
    let mut options = Vec::new(alloc);
    for (opened, name) in readers.iter().zip(names) {
        if let Some(body) = opened.header() {
            let (_, section) = SectionHeaderBlock::from_slice(alloc, body)?;
            let shown = Shown(name);
            let name = format!(in alloc; "{shown}")?;
            add_options(alloc, name.as_str(), section.options, &mut options)?;
        }
    }
    if options.is_empty() {
        return PcapNgWriter::new(alloc, output);
    }
    let section = SectionHeaderBlock {
        magic: LITTLE,
        major_version: 1,
        minor_version: 0,
        section_length: -1,
        options,
    };
    PcapNgWriter::with_section_header(alloc, &section, output)
}

// Returns whether one of these sources gives something of its opening next.
fn are_in_opening<R>(sources: &[Source<R>], order: PacketOrder) -> bool {
    for source in sources {
        let is_in_opening = match order {
            PacketOrder::ByTime => source.is_untimed(),
            PacketOrder::ByFile => source.holds_interface(),
        };
        if is_in_opening {
            return true;
        }
    }
    false
}

/// Returns the interface of a classic capture with this header. Its times are in nanoseconds. An option keeps the length of the frame
/// check sequence, which the header has beside the link type, and counts it in bits.
pub(crate) fn interface_under(
    alloc: Global,
    header: &PcapHeader,
) -> ResultParsing<InterfaceDescriptionBlock<'static>> {
    let field = LinkField::from(u32::from(header.datalink));
    let mut options = vec![in alloc; InterfaceDescriptionOption::IfTsResol(9)]?;
    if let Some(len) = field.fcs_len {
        options.push(InterfaceDescriptionOption::IfFcsLen(len.saturating_mul(8)))?;
    }
    Ok(InterfaceDescriptionBlock {
        linktype: field.link,
        reserved: 0,
        snaplen: header.snaplen,
        options,
    })
}
