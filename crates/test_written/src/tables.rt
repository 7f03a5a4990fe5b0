//! The blocks of the rows. Each is read, has the value of its row, and is written as the bytes of its row.

use crate::rows::{
    EACH_KIND, ENHANCED_PACKETS, INTERFACES, NAMES, PACKETS, SECTIONS, STATISTICS, STRINGS, WHOLE,
};
use crate::writing::{goes_out, holds};
use byteorder::{BigEndian, ByteOrder, LittleEndian};
use pcap_blocks::{BlockType, ParsedBlock};
use pcap_core::{Endianness, ResultParsing};
use std::alloc::Global;
use std::test::*;
use test_support::rows::bytes;

// Returns whether the block of these bytes has the value of this text, and is written as these bytes.
fn is_block<B: ByteOrder>(alloc: Global, order: Endianness, block: &[u8], text: &str) -> bool {
    if block.len() < 12 {
        return false;
    }
    let type_ = BlockType::from(B::read_u32(block));
    let body = &block[8..block.len() - 4];
    match &ParsedBlock::from_slice::<B>(alloc, type_, body) {
        Ok((_, value)) => {
            shows(alloc, value, text)
                && holds(goes_out(alloc, order, value, block))
                && holds(goes_out_alone(alloc, order, value, block))
        }
        Err(_) => false,
    }
}

// Returns whether the block in a value is written as these bytes. A section is written in its own byte order after one in either.
fn goes_out_alone(
    alloc: Global,
    order: Endianness,
    value: &ParsedBlock<'_>,
    block: &[u8],
) -> ResultParsing<bool> {
    match value {
        ParsedBlock::SectionHeader(it) => Ok(
            goes_out(alloc, Endianness::Big, it, block)?
                && goes_out(alloc, Endianness::Little, it, block)?,
        ),
        ParsedBlock::InterfaceDescription(it) => goes_out(alloc, order, it, block),
        ParsedBlock::Packet(it) => goes_out(alloc, order, it, block),
        ParsedBlock::SimplePacket(it) => goes_out(alloc, order, it, block),
        ParsedBlock::NameResolution(it) => goes_out(alloc, order, it, block),
        ParsedBlock::InterfaceStatistics(it) => goes_out(alloc, order, it, block),
        ParsedBlock::EnhancedPacket(it) => goes_out(alloc, order, it, block),
        ParsedBlock::SystemdJournalExport(it) => goes_out(alloc, order, it, block),
        ParsedBlock::Unknown(it) => goes_out(alloc, order, it, block),
    }
}

// Returns whether a value is formatted as this text.
fn shows(alloc: Global, value: &ParsedBlock<'_>, text: &str) -> bool {
    match format!(in alloc; "{value:?}") {
        Ok(shown) => shown.as_str() == text,
        Err(_) => false,
    }
}

// Returns whether the bytes of a row are a block in its byte order, with the value of its text, and are written again as they were.
fn is_row(alloc: Global, row: &str) -> Result<bool, Fail> {
    let (place, text) = row.split_once(" => ").ok_or("a row with no arrow")?;
    let (order, digits) = place.trim().split_once(" ").ok_or("a row with no order")?;
    let block = bytes(alloc, digits)?;
    Ok(match order {
        "big" => is_block::<BigEndian>(alloc, Endianness::Big, block.as_slice(), text),
        "little" => is_block::<LittleEndian>(alloc, Endianness::Little, block.as_slice(), text),
        _ => false,
    })
}

#[test]
fn blocks_of_each_row(rt: HostRuntime) -> Result<(), Fail> {
    for table in [
        SECTIONS,
        STRINGS,
        INTERFACES,
        PACKETS,
        ENHANCED_PACKETS,
        STATISTICS,
        NAMES,
        WHOLE,
        EACH_KIND,
    ] {
        for row in table.trim().lines() {
            assert!(rt; is_row(rt.alloc(), row)?, "{row}");
        }
    }
    Ok(())
}
