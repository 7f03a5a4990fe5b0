//! Converting a capture from one format to the other.

ghost use Rattle.std.specs.Prelude.{◌≡◌, Some, false};

use crate::left_out::LeftOut;
use crate::with_fcs::{Again, HEADER, has_reserved_bits, header_with_more, put_packets};
use pcap_file::pcap::{PACKET_LIMIT, PcapHeader};
use pcap_file::pcapng::{InterfaceDescriptionBlock, PcapNgWriter};
use pcap_file::run::{
    IfUnplaced, Under, convert_to_pcap, convert_to_pcapng, copy_buffered, copy_pcapng_buffered,
};
use pcap_file::{DataLink, PcapError, PcapNgReader, PcapReader, PcapWriter, ResultParsing};
use pcapfile_files::{Console, OUTPUT, Shown, buffered};
use pcapfile_run::{Format, format_of};
use std::alloc::Global;
use std::io;
use std::io::{BufRead, BufWriter, Read, Write};

/// The magic number of a little-endian classic capture with nanoseconds.
const LITTLE_NANOSECONDS: u32 = 0x4D3C_B2A1;

/// The outcome of a conversion.
#[derive(Drop)]
pub struct Converted {
    /// What doesn't fit in the other format.
    pub left_out: LeftOut,
    /// Whether bits without a meaning were left out of the field of a link type.
    pub has_lost_bits: bool,
    /// The error that ended the conversion before the end of the capture.
    pub fault: Option<PcapError>,
    /// Whether that error is of a write.
    pub write_failed: bool,
}

impl Converted {
    /// Returns the outcome of the conversion of a capture that can't be opened.
    pub fn unread(error: PcapError) -> Converted
        ensures fault { result.fault ≡ Some error }
        ensures no_write_failed { result.write_failed ≡ false }
        ensures no_lost_bits { result.has_lost_bits ≡ false }
    {
        Converted::whole(Some(error), false)
    }

    // Returns the outcome of a conversion that left nothing out.
    fn whole(fault: Option<PcapError>, write_failed: bool) -> Converted
        ensures fault { result.fault ≡ fault }
        ensures write_failed { result.write_failed ≡ write_failed }
        ensures no_lost_bits { result.has_lost_bits ≡ false }
    {
        Converted {
            left_out: LeftOut::default(),
            has_lost_bits: false,
            fault,
            write_failed,
        }
    }
}

/// Reports that bits without a meaning were left out of the field of a classic capture's link type.
pub fn tell_lost_bits(console: &Console, name: &str) -> io::Result<()> {
    let shown = Shown(name);
    eprintln!(console.for_line();
        "pcapfile: {shown}: reserved bits beside the link type are left out"
    )
}

/// Converts a capture to this format, or to the format that it doesn't have. Returns an error if the first byte can't be read or memory
/// for a buffer is refused; the outcome has all other errors.
pub fn convert_stream<R: Read + Drop, W: Write + Drop>(
    alloc: Global,
    stream: R,
    to: Option<Format>,
    output: W,
) -> io::Result<Converted> {
    let mut input = buffered(alloc, stream)?;
    let output = BufWriter::with_capacity(alloc, OUTPUT, output)?;
    let from = format_of(&mut input)?;
    Ok(match to.unwrap_or(other(from)) {
        Format::Pcap => convert_to_packets(alloc, from, input, output),
        Format::PcapNg => convert_to_blocks(alloc, from, input, output),
    })
}

fn convert_to_blocks<R: BufRead + Drop, W: Write + Drop>(
    alloc: Global,
    from: Format,
    mut input: R,
    mut output: W,
) -> Converted {
    if let Format::Pcap = from {
        return convert_classic(alloc, input, output);
    }
    let copied = copy_pcapng_buffered(alloc, &mut input, &mut output, u64::MAX);
    flushed(output, Converted::whole(copied.fault, copied.write_failed))
}

// Writes the packets of a classic capture as blocks.
fn convert_classic<R: Read + Drop, W: Write + Drop>(
    alloc: Global,
    mut input: R,
    mut output: W,
) -> Converted {
    let mut bytes = [0; HEADER];
    if let Err(error) = input.read_exact(&mut bytes) {
        return Converted::whole(Some(PcapError::IoError(error)), false);
    }
    if let Some(header) = header_with_more(&bytes) {
        return convert_with_fcs(alloc, header, input, output);
    }
    let mut capture = Again::new(bytes, input);
    let copied = convert_to_pcapng(alloc, &mut capture, &mut output, u64::MAX);
    flushed(output, Converted::whole(copied.fault, copied.write_failed))
}

// Writes the packets after a header whose field has more than a link type.
fn convert_with_fcs<R: Read + Drop, W: Write + Drop>(
    alloc: Global,
    header: PcapHeader,
    input: R,
    output: W,
) -> Converted {
    let has_lost_bits = has_reserved_bits(&header);
    let mut reader = PcapReader::with_header(alloc, header, input);
    let mut writer = match PcapNgWriter::new(alloc, output) {
        Ok(writer) => writer,
        Err(error) => return Converted::whole(Some(error), true),
    };
    let fault = put_packets(alloc, &mut reader, &mut writer).err();
    let mut ended = Converted::whole(fault, writer.failed());
    ended.has_lost_bits = has_lost_bits;
    flushed(writer.into_writer(), ended)
}

fn convert_to_packets<R: BufRead + Drop, W: Write + Drop>(
    alloc: Global,
    from: Format,
    mut input: R,
    mut output: W,
) -> Converted {
    if let Format::Pcap = from {
        let copied = copy_buffered(alloc, &mut input, &mut output, Under::Same, u64::MAX);
        return flushed(output, Converted::whole(copied.fault, copied.write_failed));
    }
    match place_blocks(alloc, input, output) {
        Ok(ended) => ended,
        Err(error) => Converted::whole(Some(error), false),
    }
}

// Writes the packets of blocks under the link type and the snapshot length of their first interface.
fn place_blocks<R: Read + Drop, W: Write + Drop>(
    alloc: Global,
    input: R,
    output: W,
) -> ResultParsing<Converted> {
    let mut reader = PcapNgReader::new(alloc, input)?;
    let mut ended = Converted::whole(None, false);
    ended.left_out.note_section(&reader);
    pass_to_interface(&mut reader, &mut ended.left_out)?;
    let header = header_under(reader.interfaces());
    let mut writer = match PcapWriter::with_header(header, output) {
        Ok(writer) => writer,
        Err(error) => return Ok(Converted::whole(Some(error), true)),
    };
    ended.fault = place_packets(alloc, &mut reader, &mut writer, &mut ended.left_out);
    ended.write_failed = writer.failed();
    Ok(flushed(writer.into_writer(), ended))
}

// Skips blocks until an interface is described. Packets before it don't fit in a classic capture.
fn pass_to_interface<R: Read + Drop>(
    reader: &mut PcapNgReader<R>,
    left_out: &mut LeftOut,
) -> ResultParsing<()> {
    for _turn in 0..u64::MAX {
        let Some(header) = reader.next_header() else {
            break;
        };
        let _header = header?;
        if let Some(first) = reader.interfaces().first() {
            left_out.note_interface(first);
            break;
        }
        left_out.count(reader, false);
    }
    Ok(())
}

// Writes the packets of the other blocks, counts what is left out, and returns the error that ended the conversion, if any.
fn place_packets<R: Read + Drop, W: Write + Drop>(
    alloc: Global,
    reader: &mut PcapNgReader<R>,
    writer: &mut PcapWriter<W>,
    left_out: &mut LeftOut,
) -> Option<PcapError> {
    for _block in 0..u64::MAX {
        let converted = convert_to_pcap(alloc, reader, writer, IfUnplaced::LeaveOut, 1);
        if converted.fault.is_some() {
            return converted.fault;
        }
        if converted.blocks == 0 {
            break;
        }
        left_out.count(reader, converted.packets > 0);
    }
    None
}

/// Returns the header of the classic capture that blocks become. Without an interface its link type is Ethernet.
pub(crate) fn header_under(interfaces: &[InterfaceDescriptionBlock<'static>]) -> PcapHeader {
    let mut header = PcapHeader::default();
    header.magic_number = LITTLE_NANOSECONDS;
    header.datalink = DataLink::ETHERNET;
    header.snaplen = PACKET_LIMIT;
    if let Some(first) = interfaces.first() {
        header.datalink = first.linktype;
        if first.snaplen > 0 {
            header.snaplen = first.snaplen;
        }
    }
    header
}

fn other(format: Format) -> Format {
    match format {
        Format::Pcap => Format::PcapNg,
        Format::PcapNg => Format::Pcap,
    }
}

// Flushes the output, and returns the outcome of the conversion.
fn flushed<W: Write + Drop>(mut output: W, mut ended: Converted) -> Converted {
    if let Err(error) = output.flush() {
        if ended.fault.is_none() {
            ended.fault = Some(PcapError::IoError(error));
            ended.write_failed = true;
        }
    }
    ended
}
