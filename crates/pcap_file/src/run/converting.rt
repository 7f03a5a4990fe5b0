//! Converts classic captures to PcapNg captures, from a reader to a writer.

ghost use Rattle.std.specs.Prelude.{◌≤◌};
ghost use Rattle.pcap_items.specs.Copying.{NothingCopied};
ghost use Rattle.pcap_file.specs.Converted.{opening_blocks};
ghost use Rattle.pcap_file.specs.Converts.{BeginsConversion, ConvertRun, MakesText};

use byteorder::LittleEndian;
use pcap_blocks::{InterfaceDescriptionBlock, InterfaceDescriptionOption, SectionHeaderBlock};
use pcap_classic::pcap::{HeldPacket, PacketHeader, PcapHeader, read_header};
use pcap_classic::run::{Copied, PacketsAhead, PutsPacket, end_copy};
use pcap_core::{Endianness, ResultParsing};
use pcap_items::stream::{Tally, put};
use pcap_written::{encode, put_packet};
use std::alloc::Global;
use std::io::{Read, Write};

/// Converts a classic capture from a reader to a PcapNg capture in a writer. The output is one little-endian section without options,
/// one interface and an enhanced packet for each of at most `most` packets. The interface has the link type and the snapshot length
/// of the capture's header, and times in nanoseconds. Each enhanced packet has its packet's time, original length in bytes, and
/// bytes. Each packet is written before the next one is read. Without a fault, exactly what was converted was taken from the reader.
///
/// If the header is refused, the fault is what `PcapHeader::from_reader` returns, and nothing is written. `InvalidField` for a link
/// type whose number is 65536 or more, which does not fit into an interface (see `Unwritable`): nothing is written then. If the rest
/// is refused, the fault is what `PcapReader` returns there: all packets before it were written, and no more of the rest was taken
/// than was missing. `IoError` also if a write failed: a beginning of the next blocks was written then, and that packet was taken.
/// `OutOfMemory` if there is no memory for the first two blocks or for a packet.
pub fn convert_to_pcapng<R: Read, W: Write>(
    alloc: Global,
    reader: &mut R,
    writer: &mut W,
    most: u64,
) -> Copied
    ensures most { result.packets ≤ most }
    ensures run { ConvertRun (R.remaining reader.old) (R.remaining reader.new) (W.contents writer.old) (W.contents writer.new) most result }
{
    let tally = &mut Tally::none();
    let result = match begin_conversion(alloc, reader, writer, tally) {
        Ok(packets) => packets.copy(alloc, reader, writer, most, tally),
        Err(e) => Err(e),
    };
    end_copy(tally, result.err())
}

// Reads the header, writes the blocks before the packets, and returns the packets that are ahead.
fn begin_conversion<R: Read, W: Write>(
    alloc: Global,
    reader: &mut R,
    writer: &mut W,
    tally: &mut Tally,
) -> ResultParsing<PacketsAhead<PacketBlocks>>
    requires { NothingCopied tally.old }
    ensures { BeginsConversion (R.remaining reader.old) (R.remaining reader.new) (W.contents writer.old) (W.contents writer.new) tally.new result }
{
    let header = read_header(reader, &mut tally.read_failed)?;
    let text = opening_text(alloc, &header)?;
    put(writer, &mut tally.write_failed, text.as_slice())?;
    let puts = PacketBlocks;
    Ok(PacketsAhead { header, puts })
}

// Returns the text of the section and the interface.
fn opening_text(alloc: Global, header: &PcapHeader) -> ResultParsing<Vec<u8>>
    ensures { MakesText (opening_blocks header.now) (λ text. text.items) result }
{
    let section = SectionHeaderBlock {
        magic: 0x4D3C2B1A,
        major_version: 1,
        minor_version: 0,
        section_length: -1,
        options: Vec::new(alloc),
    };
    let interface = InterfaceDescriptionBlock {
        linktype: header.datalink,
        reserved: 0,
        snaplen: header.snaplen,
        options: vec![in alloc; InterfaceDescriptionOption::IfTsResol(9)]?,
    };
    let mut body = Vec::new(alloc);
    let mut text = Vec::new(alloc);
    let mut more = Vec::new(alloc);
    encode(Endianness::Little, &mut body, &mut text, &section)?;
    encode(Endianness::Little, &mut body, &mut more, &interface)?;
    text.extend_from_slice(more.as_slice())?;
    Ok(text)
}

// Writes each packet as an enhanced packet block of the only interface.
#[derive(Drop)]
struct PacketBlocks;

impl PutsPacket for PacketBlocks {
    ghost use Rattle.std.specs.Prelude.{⊤};
    ghost use Rattle.pcap_file.specs.Converted.{converted_text};

    ghost stands = { λ blocks. ⊤ };

    ghost text = { λ blocks. converted_text };

    #[inline(always)]
    fn put_held<W: Write>(&self, writer: &mut W, held: HeldPacket<'_>) -> ResultParsing<()> {
        let packet = held.packet();
        let PacketHeader {
            ts_sec,
            ts_nsec,
            orig_len,
            ..
        } = packet.header;
        let time = u64::from(ts_sec) * 1_000_000_000 + u64::from(ts_nsec);
        put_packet::<W, LittleEndian>(
            writer,
            &mut false,
            0,
            time,
            packet.data_.as_slice(),
            orig_len,
        )
    }
}
