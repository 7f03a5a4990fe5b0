//! Merging captures of either format into one.

use crate::converting::tell_lost_bits;
use crate::left_out::LeftOut;
use crate::opening::{Joining, Opened, Openings, put_opening};
use crate::placing::Placing;
use crate::with_fcs::has_reserved_bits;
use pcap_file::ResultParsing;
use pcap_file::pcap::PACKET_LIMIT;
use pcap_file::pcapng::PcapNgWriter;
use pcapfile_files::{Console, Count, Shown};
use pcapfile_merge::{PacketOrder, Reader, Source, merge_packets, next_source};
use pcapfile_run::Format;
use std::io;
use std::io::{Read, Write};

/// Writes the merge of these captures in this format, and returns what was left out. The readers become sources, which have the errors
/// that ended the captures early. Returns an error if a write fails or memory is refused.
pub fn merge_readers<R: Read + Drop, W: Write + Drop>(
    joining: Joining<'_>,
    to: Format,
    readers: Vec<Opened<R>>,
    sources: &mut Vec<Source<R>>,
    output: W,
) -> ResultParsing<LeftOut> {
    match to {
        Format::Pcap => write_placed(joining, readers, sources, output),
        Format::PcapNg => write_merged(joining, readers, sources, output),
    }
}

// Writes the merge as a PcapNg capture, from which nothing is left out.
fn write_merged<R: Read + Drop, W: Write + Drop>(
    joining: Joining<'_>,
    readers: Vec<Opened<R>>,
    sources: &mut Vec<Source<R>>,
    output: W,
) -> ResultParsing<LeftOut> {
    let (mut output, interfaces) = put_opening(joining, readers, sources, output)?;
    let all = sources.as_mut_slice();
    let merged = merge_packets(all, joining.order, &mut output, u64::MAX, interfaces);
    if let Some(error) = merged.fault {
        return Err(error);
    }
    output.flush()?;
    Ok(LeftOut::default())
}

// Writes the merge as a classic capture, and returns what was left out.
fn write_placed<R: Read + Drop, W: Write + Drop>(
    joining: Joining<'_>,
    readers: Vec<Opened<R>>,
    sources: &mut Vec<Source<R>>,
    output: W,
) -> ResultParsing<LeftOut> {
    let snaplen = most_stored(readers.as_slice());
    let Joining { alloc, order, .. } = joining;
    let (mut openings, mut writer) = Openings::begin(joining, readers, Vec::new(alloc))?;
    let section = writer.get_ref().as_slice();
    let mut placing = Placing::after(alloc, section, output, snaplen)?;
    for _ in 0..u64::MAX {
        writer.get_mut().clear();
        // A packet that is written now is the next one of the merge.
        let has_no_time = is_untimed_next(sources.as_slice(), order);
        let goes_on = put_next(&mut openings, sources, &mut writer)?;
        placing.place(writer.get_ref().as_slice(), has_no_time)?;
        if !goes_on {
            break;
        }
    }
    placing.end(openings.of_headers)
}

// Returns whether the next packet or block of a merge in this order has no time.
fn is_untimed_next<R>(sources: &[Source<R>], order: PacketOrder) -> bool {
    match next_source(sources, order) {
        None => false,
        Some(source) => source.is_untimed(),
    }
}

// Writes the next block of an opening, or else the blocks up to the next packet. Returns false if no packet is left.
fn put_next<R: Read + Drop>(
    openings: &mut Openings<R>,
    sources: &mut Vec<Source<R>>,
    writer: &mut PcapNgWriter<Vec<u8>>,
) -> ResultParsing<bool> {
    if openings.put_next(sources, writer)? {
        return Ok(true);
    }
    let merged = merge_packets(
        sources.as_mut_slice(),
        openings.order,
        writer.get_mut(),
        1,
        openings.interfaces,
    );
    openings.interfaces = merged.interfaces;
    match merged.fault {
        None => Ok(merged.packets > 0),
        Some(error) => Err(error),
    }
}

// Returns the largest snapshot length of the captures. That of a PcapNg capture is not known before all its interfaces are read.
fn most_stored<R: Read + Drop>(readers: &[Opened<R>]) -> u32 {
    let mut most = 0;
    for opened in readers {
        let snaplen = match &opened.reader {
            Reader::Packets(packets) => packets.header().snaplen,
            Reader::Blocks(_) => PACKET_LIMIT,
        };
        most = most.max(if snaplen == 0 { PACKET_LIMIT } else { snaplen });
    }
    most
}

/// Reports what was left out of each capture.
pub fn tell_left_out<R: Read + Drop>(
    console: &Console,
    names: &[&str],
    sources: &[Source<R>],
) -> io::Result<()> {
    for (name, source) in names.iter().zip(sources) {
        match source.reader() {
            Reader::Packets(packets) if has_reserved_bits(packets.header()) => {
                tell_lost_bits(console, name)?;
            }
            Reader::Packets(_) => {}
            Reader::Blocks(blocks) => {
                for count in kinds(blocks.left_out(), source.left_out()) {
                    tell_kind(console, name, count)?;
                }
            }
        }
    }
    Ok(())
}

// Returns how many blocks and options of each kind were left out of a capture.
fn kinds<'a>(left_out: pcapfile_merge::LeftOut, packet_options: u64) -> [Count<'a>; 6] {
    [
        Count(left_out.names, "block of names is", "blocks of names are"),
        Count(
            left_out.statistics,
            "block of statistics is",
            "blocks of statistics are",
        ),
        Count(
            left_out.secrets,
            "block of secrets is",
            "blocks of secrets are",
        ),
        Count(
            left_out.others,
            "block of other types is",
            "blocks of other types are",
        ),
        Count(
            left_out.section_options,
            "option of section headers is",
            "options of section headers are",
        ),
        Count(
            packet_options,
            "option of obsolete packets is",
            "options of obsolete packets are",
        ),
    ]
}

// Reports how many blocks or options of one kind were left out of a capture, if there were any.
fn tell_kind(console: &Console, name: &str, count: Count<'_>) -> io::Result<()> {
    if count.0 > 0 {
        let shown = Shown(name);
        eprintln!(console.for_line(); "pcapfile: {shown}: {count} left out")?;
    }
    Ok(())
}
