//! The calls that rows name. A row is `KIND WHAT COUNT NUMBERS => ANSWER`.
//!
//! - KIND is a kind of block. `parts` is a packet that the caller gives in parts (`write_packet`). `raw` is a block whose body the writer
//!   leaves as it is. `ipv4`, `ipv6`, `record` and `end` are name resolution blocks with such a record.
//! - WHAT names the option that the block has, or the number of the block that the row is about: its `interface`, `length`, `type`,
//!   `link`, `magic` or `snaplen`. With `plain` and `bytes` the block has no option, and its numbers fit. `options`, `raw` and `records`
//!   describe what else stands there.
//! - COUNT is how many bytes or letters the option has. For a block without options, it is how many bytes the block has.
//! - The writer gets the block once with each of the NUMBERS, between which are commas. The number becomes the number that WHAT names, or
//!   the code of a custom option. COUNT and NUMBERS are 0 if the call uses none.
//! - ANSWER has the digits of the bytes that the writer adds, or the message with which it refuses the call.
//!
//! So `parts interface 2 0` writes a packet of two bytes for interface 0. `names custom-bytes 65532 2989` writes a name resolution block
//! that has a custom option with code 2989 and 65532 bytes.

use crate::options::{
    enhanced_option, interface_option, listed, name_option, packet_option, section_option,
    statistics_option,
};
use crate::raw::put_raw;
use crate::records::record;
use pcap_blocks::{
    BlockType, EnhancedPacketBlock, EnhancedPacketOption, InterfaceDescriptionBlock,
    InterfaceDescriptionOption, InterfaceStatisticsBlock, InterfaceStatisticsOption,
    NameResolutionBlock, NameResolutionOption, PacketBlock, PacketOption, ParsedBlock,
    SectionHeaderBlock, SectionHeaderOption, SimplePacketBlock, SystemdJournalExportBlock,
    UnknownBlock,
};
use pcap_core::{CowBytes, DataLink, PcapError, ResultParsing};
use pcap_written::PcapNgWriter;
use std::alloc::Global;
use std::borrow::CowStr;
use std::test::Fail;
use test_support::captures::front;
use test_support::writers::Narrow;

/// The call of a row, with one of its numbers.
#[derive(Clone, Copy)]
pub(crate) struct Call<'a> {
    /// The kind of the block.
    pub kind: &'a str,
    /// The option, or the number of the block, that the row is about, or what else stands in its place.
    pub what: &'a str,
    /// How many bytes or letters the block or its option has.
    pub count: u32,
    /// One of the numbers of the row.
    pub number: u32,
    /// The bytes 1, 2, 3 and so on, of which a value has the first.
    pub bytes: &'a [u8],
    /// Letters, of which a text has the first.
    pub letters: &'a str,
}

impl<'a> Call<'a> {
    /// Returns the number if the row is about this, and another value if not.
    pub(crate) fn number_of(self, what: &str, other: u32) -> u32 {
        if self.what == what {
            self.number
        } else {
            other
        }
    }

    /// Returns the bytes of the value.
    pub(crate) fn value(self) -> &'a [u8] {
        front(self.bytes, self.count as usize)
    }

    /// Returns the letters of the text.
    pub(crate) fn text(self) -> CowStr<'a> {
        CowStr::Borrowed(self.letters.get(..self.count as usize).unwrap_or(""))
    }
}

/// Returns a number of at most two bytes.
pub(crate) fn short(number: u32) -> u16 {
    number.min(65_535) as u16
}

/// Returns the call of a row without its numbers, its numbers, and its answer.
pub(crate) fn parsed<'a>(
    row: &'a str,
    bytes: &'a [u8],
    letters: &'a str,
) -> Result<(Call<'a>, &'a str, &'a str), Fail> {
    let (call, answer) = row.split_once(" => ").ok_or("a row with no arrow")?;
    let (kind, rest) = call.trim().split_once(' ').ok_or("a row of one word")?;
    let (what, rest) = rest.split_once(' ').ok_or("a row of two words")?;
    let (count, numbers) = rest.split_once(' ').ok_or("a row of three words")?;
    let count = count.parse::<u32>().ok().ok_or("a row with no count")?;
    let call = Call {
        kind,
        what,
        count,
        number: 0,
        bytes,
        letters,
    };
    Ok((call, numbers, answer))
}

/// Makes a call: it writes the block.
pub(crate) fn put(
    alloc: Global,
    writer: &mut PcapNgWriter<&mut Narrow>,
    call: Call<'_>,
) -> ResultParsing<()> {
    match call.kind {
        "section" => put_section(alloc, writer, call),
        "interface" => put_interface(alloc, writer, call),
        "packet" => put_packet(alloc, writer, call),
        "enhanced" => put_enhanced(alloc, writer, call),
        "statistics" => put_statistics(alloc, writer, call),
        "names" | "ipv4" | "ipv6" | "record" | "end" => put_names(alloc, writer, call),
        "parts" => put_parts(writer, call),
        "raw" => put_raw(alloc, writer, call.what),
        _ => put_bytes(writer, call),
    }
}

/// Returns a section. Its magic number is that of little-endian byte order, the number of the row, or that of big-endian byte order.
pub(crate) fn section<'a>(alloc: Global, call: Call<'a>) -> ResultParsing<SectionHeaderBlock<'a>> {
    let magic = match call.what {
        "little" => 0x4D3C2B1A,
        "magic" => call.number,
        _ => 0x1A2B3C4D,
    };
    let ok = SectionHeaderOption::Comment(CowStr::Borrowed("ok"));
    Ok(SectionHeaderBlock {
        magic,
        major_version: 1,
        minor_version: 0,
        section_length: -1,
        options: listed(alloc, ok, section_option(call))?,
    })
}

fn put_section(
    alloc: Global,
    writer: &mut PcapNgWriter<&mut Narrow>,
    call: Call<'_>,
) -> ResultParsing<()> {
    let section = ParsedBlock::SectionHeader(section(alloc, call)?);
    writer.write_block(&section)
}

fn put_interface(
    alloc: Global,
    writer: &mut PcapNgWriter<&mut Narrow>,
    call: Call<'_>,
) -> ResultParsing<()> {
    let ok = InterfaceDescriptionOption::Comment(CowStr::Borrowed("ok"));
    let linktype = match call.what {
        "link" => DataLink::Unknown(call.number),
        _ => DataLink::ETHERNET,
    };
    let interface = InterfaceDescriptionBlock {
        linktype,
        reserved: 0,
        snaplen: call.number_of("snaplen", 0),
        options: listed(alloc, ok, interface_option(call))?,
    };
    writer.write_pcapng_block(&interface)
}

fn put_packet(
    alloc: Global,
    writer: &mut PcapNgWriter<&mut Narrow>,
    call: Call<'_>,
) -> ResultParsing<()> {
    let ok = PacketOption::Comment(CowStr::Borrowed("ok"));
    let packet = PacketBlock {
        interface_id: short(call.number_of("interface", 0)),
        drop_count: 0,
        timestamp: 0,
        captured_len: call.number_of("length", 2),
        original_len: 2,
        data_: CowBytes::Borrowed(&[1, 2]),
        options: listed(alloc, ok, packet_option(call))?,
    };
    writer.write_pcapng_block(&packet)
}

fn put_enhanced(
    alloc: Global,
    writer: &mut PcapNgWriter<&mut Narrow>,
    call: Call<'_>,
) -> ResultParsing<()> {
    let ok = EnhancedPacketOption::Comment(CowStr::Borrowed("ok"));
    let packet = EnhancedPacketBlock {
        interface_id: call.number_of("interface", 0),
        timestamp: 0x0000_0001_0000_0002,
        captured_len: call.number_of("length", 2),
        original_len: 3,
        data_: CowBytes::Borrowed(&[0x61, 0x62]),
        options: listed(alloc, ok, enhanced_option(call))?,
    };
    writer.write_pcapng_block(&packet)
}

fn put_statistics(
    alloc: Global,
    writer: &mut PcapNgWriter<&mut Narrow>,
    call: Call<'_>,
) -> ResultParsing<()> {
    let ok = InterfaceStatisticsOption::Comment(CowStr::Borrowed("ok"));
    let statistics = InterfaceStatisticsBlock {
        interface_id: call.number_of("interface", 0),
        timestamp: 0,
        options: listed(alloc, ok, statistics_option(call))?,
    };
    writer.write_pcapng_block(&statistics)
}

fn put_names(
    alloc: Global,
    writer: &mut PcapNgWriter<&mut Narrow>,
    call: Call<'_>,
) -> ResultParsing<()> {
    let ok = NameResolutionOption::Comment(CowStr::Borrowed("ok"));
    let options = listed(alloc, ok, name_option(call))?;
    let names = NameResolutionBlock {
        records: record(alloc, call)?,
        options,
    };
    writer.write_pcapng_block(&names)
}

// Writes a packet from its parts. Its interface is the second one, or that of the row.
fn put_parts(writer: &mut PcapNgWriter<&mut Narrow>, call: Call<'_>) -> ResultParsing<()> {
    let interface = call.number_of("interface", 1);
    writer.write_packet(interface, 0x0405060708090a0b, call.value(), 0x0c0d0e0f)
}

// Writes a block without options.
fn put_bytes(writer: &mut PcapNgWriter<&mut Narrow>, call: Call<'_>) -> ResultParsing<()> {
    let data = CowBytes::Borrowed(call.value());
    match call.kind {
        "simple" => writer.write_pcapng_block(&SimplePacketBlock {
            original_len: 0x01020304,
            data_: data,
        }),
        "journal" => writer.write_pcapng_block(&SystemdJournalExportBlock {
            journal_entry: data,
        }),
        "unknown" => {
            let length = call.number_of("length", call.count);
            writer.write_pcapng_block(&UnknownBlock::new(type_of(call), length, call.value()))
        }
        _ => Err(PcapError::InvalidField("no kind of block")),
    }
}

// Returns the type of an unknown block: one with a name, or the number of the row.
fn type_of(call: Call<'_>) -> BlockType {
    match call.what {
        "section" => BlockType::SectionHeader,
        "interface" => BlockType::InterfaceDescription,
        "enhanced" => BlockType::EnhancedPacket,
        "journal" => BlockType::SystemdJournalExport,
        _ => BlockType::Unknown(call.number_of("type", 10)),
    }
}
