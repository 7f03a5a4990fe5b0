//! Blocks that are read and written again without parsing their bodies, or made again from their values.

use pcap_file::pcapng::{
    Block, EnhancedPacketBlock, PcapNgBlock, PcapNgParser, PcapNgReader, PcapNgWriter,
    SectionHeaderBlock, ToBlock,
};
use pcap_file::{CowBytes, Endianness, PcapError, ResultParsing};
use std::alloc::Global;
use std::test::Fail;
use test_support::captures::SECTIONS;
use test_support::readers::Halting;

// Writes the first section of a capture again, and each other block unchanged.
fn copied(alloc: Global, capture: &[u8], step: usize) -> Result<Vec<u8>, Fail> {
    let stream = Halting::new(alloc, capture, step)?;
    let mut reader = PcapNgReader::new(alloc, stream)?;
    let mut writer = PcapNgWriter::with_section_header(alloc, reader.section(), Vec::new(alloc))?;
    for _ in 0..capture.len() {
        let Some(header) = reader.next_header() else {
            break;
        };
        writer.write_raw_block(&reader.block(header?))?;
    }
    Ok(writer.into_writer())
}

#[test]
fn raw_copies(rt: HostRuntime) -> Result<(), Fail> {
    for step in [1, 7, 200] {
        let out = copied(rt.alloc(), &SECTIONS, step)?;
        assert!(rt; out.as_slice() == SECTIONS.as_slice(), "by {step}");
    }
    Ok(())
}

fn are_equal(made: &Block<'_>, read: &Block<'_>) -> bool {
    made.type_ == read.type_
        && made.endianness() == read.endianness()
        && made.initial_len == read.initial_len
        && made.trailer_len == read.trailer_len
        && made.body.as_slice() == read.body.as_slice()
}

// Returns whether a block equals the one that is made from its values, with this byte order.
fn is_made_again(alloc: Global, block: &Block<'_>, order: Endianness) -> ResultParsing<bool> {
    let made = block.parsed(alloc)?.to_block(alloc, order)?;
    Ok(are_equal(&made, block))
}

// Returns how many blocks of a capture, with the first one, equal those that are made from their values in this byte order.
fn made_again(alloc: Global, capture: &[u8], order: Endianness) -> ResultParsing<usize> {
    let (_rest, first) = Block::from_slice(order, capture)?;
    let mut same = usize::from(is_made_again(alloc, &first, order)?);
    let (mut rest, mut parser) = PcapNgParser::new(alloc, capture)?;
    for _ in 0..capture.len() {
        let Ok((after, block)) = parser.next_block(rest) else {
            break;
        };
        same = same.saturating_add(usize::from(is_made_again(alloc, &block, order)?));
        rest = after;
    }
    Ok(same)
}

// A section and its interface in each byte order: a section is made in its own, so three of the four blocks are the same in each.
#[test]
fn blocks_made_again(rt: HostRuntime) -> Result<(), Fail> {
    for order in [Endianness::Big, Endianness::Little] {
        assert!(rt; made_again(rt.alloc(), &SECTIONS, order)? == 3, "{order:?}");
    }
    Ok(())
}

// Returns the message with which a block is not made.
fn refusal<B: PcapNgBlock>(alloc: Global, block: &B) -> &'static str {
    match &block.to_block(alloc, Endianness::Little) {
        Err(PcapError::InvalidField(message)) => message,
        _ => "",
    }
}

// Each of these returns a message: for a section without a magic number, and for a packet that has less data than it states.

fn of_a_section(alloc: Global) -> &'static str {
    let section = SectionHeaderBlock {
        magic: 0,
        major_version: 1,
        minor_version: 0,
        section_length: -1,
        options: Vec::new(alloc),
    };
    refusal(alloc, &section)
}

fn of_a_packet(alloc: Global) -> &'static str {
    let packet = EnhancedPacketBlock {
        interface_id: 7,
        timestamp: 0,
        captured_len: 2,
        original_len: 2,
        data_: CowBytes::Borrowed(&[1]),
        options: Vec::new(alloc),
    };
    refusal(alloc, &packet)
}

#[test]
fn blocks_without_a_text(rt: HostRuntime) {
    assert!(rt; of_a_section(rt.alloc()) == "SectionHeaderBlock: invalid magic number");
    assert!(rt; of_a_packet(rt.alloc()) == "EnhancedPacketBlock: captured_len != data.len()");
}
