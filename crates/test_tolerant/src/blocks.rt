//! Lenient reading of PcapNg captures.

use crate::block_rows::{ENDS, NUMBERS, OPTIONS};
use crate::tables::told_end;
use pcap_blocks::BlockType;
use pcap_tolerant_blocks::{EnhancedAsIs, Flaw};
use pcap_tolerant_captures::{BlockAsIs, OpenedAsIs, PcapNgParserAsIs};
use std::alloc::{AllocError, Global};
use std::fmt::Debug;
use std::test::Fail;
use test_support::rows::{bytes, every_row};

/// Appends a block: its type and flaw, and of a packet its own flaw and its time.
pub(crate) fn put_block(
    text: &mut String,
    head: (BlockType, &[Flaw]),
    parser: Option<&PcapNgParserAsIs>,
    packet: &Option<EnhancedAsIs>,
) -> Result<(), Fail> {
    let (type_, flaws) = head;
    write!(text, "; {type_:?} {flaws:?}")?;
    if let (Some(read), Some(parser)) = (packet, parser) {
        let time = match &read.packet {
            Some(packet) => parser.timestamp(packet.interface_id, packet.timestamp),
            None => None,
        };
        write!(text, " {:?} {time:?}", read.flaws)?;
    }
    Ok(())
}

// Does the same for a block of a slice.
fn put_item(
    alloc: Global,
    text: &mut String,
    parser: &PcapNgParserAsIs,
    item: &BlockAsIs,
) -> Result<(), Fail> {
    let head = (item.block.type_, item.flaws.as_slice());
    put_block(text, head, Some(parser), &item.enhanced(alloc)?)
}

// Appends the first block, the blocks after it, and why no other follows if bytes are left.
fn put_blocks(
    alloc: Global,
    text: &mut String,
    left: &[u8],
    opened: OpenedAsIs,
) -> Result<(), Fail> {
    let OpenedAsIs { mut parser, first } = opened;
    put_item(alloc, text, &parser, &first)?;
    let mut left = left;
    for _ in 0..99 {
        if left.is_empty() {
            break;
        }
        match parser.next_block_as_is(left) {
            Ok((after, item)) => {
                put_item(alloc, text, &parser, &item)?;
                left = after;
            }
            Err(error) => {
                write!(text, "; {}", told_end(alloc, &error)?)?;
                left = &[];
            }
        }
    }
    Ok(())
}

// Formats a capture: each block, and why no other follows.
fn told(alloc: Global, capture: &[u8]) -> Result<String, Fail> {
    let mut text = String::new(alloc);
    match PcapNgParserAsIs::new(alloc, capture) {
        Ok((left, opened)) => put_blocks(alloc, &mut text, left, opened)?,
        Err(error) => write!(text, "; {}", told_end(alloc, &error)?)?,
    }
    let (_, text) = text.split_once("; ").unwrap_or(("", ""));
    Ok(String::from_str(alloc, text)?)
}

#[test]
fn blocks_of_captures(rt: HostRuntime) -> Result<(), Fail> {
    for table in [OPTIONS, NUMBERS, ENDS] {
        every_row(rt.alloc(), table, told)?;
    }
    Ok(())
}

// Blocks, and each read as an obsolete packet, a simple packet, statistics and names, written by hand.
const BODIES: &str = r#"
    02000000 28000000  0100 0200 00000000 00000000 00000000 00000000  0100 0100 ff000000  28000000 => Some(PacketBlockAsIs { packet: Some(PacketBlock { interface_id: 1, drop_count: 2, timestamp: 0, captured_len: 0, original_len: 0, data_: Borrowed([]), options: [Unknown(UnknownOption { code: 1, length: 1, value: Borrowed([255]) })] }), flaws: [Flaw { code: Some(1), broken: NotUtf8 }] }) None None None
    03000000 10000000 00000000 10000000 => None Some(SimpleAsIs { packet: Some(SimplePacketBlock { original_len: 0, data_: Borrowed([]) }), flaws: [] }) None None
    03000000 0c000000 0c000000 => None Some(SimpleAsIs { packet: None, flaws: [Flaw { code: None, broken: Rule(SimpleTooShort) }] }) None None
    05000000 0c000000 0c000000 => None None Some(StatisticsAsIs { statistics: None, flaws: [Flaw { code: None, broken: Rule(StatisticsTooShort) }] }) None
    04000000 1c000000  0100 0600 7f000001 ff000000  0000 0000  1c000000 => None None None Some(NamesAsIs { names: NameResolutionBlock { records: [Unknown(UnknownRecord { type_: 1, length: 6, value: Borrowed([127, 0, 0, 1, 255, 0]) })], options: [] }, flaws: [Flaw { code: None, broken: NotUtf8 }] })
    06000000 0c000000 0c000000 => None None None None
"#;

// Appends a body, or None if the block has another type.
fn put_body<T: Debug + Drop>(
    text: &mut String,
    body: Result<Option<T>, AllocError>,
) -> Result<(), Fail> {
    Ok(write!(text, "{:?} ", body?)?)
}

// Formats the body of a block that follows a section header, read as each of the four kinds.
fn told_bodies(alloc: Global, block: &[u8]) -> Result<String, Fail> {
    let section = "0a0d0d0a 1c000000 4d3c2b1a 0100 0000 ffffffffffffffff 1c000000";
    let section = bytes(alloc, section)?;
    let (_rest, mut opened) = PcapNgParserAsIs::new(alloc, section.as_slice())?;
    let (_rest, item) = opened.parser.next_block_as_is(block)?;
    let mut text = String::new(alloc);
    put_body(&mut text, item.packet_block(alloc))?;
    put_body(&mut text, item.simple(alloc))?;
    put_body(&mut text, item.statistics(alloc))?;
    put_body(&mut text, item.names(alloc))?;
    Ok(String::from_str(alloc, text.trim_end())?)
}

#[test]
fn bodies_of_blocks(rt: HostRuntime) -> Result<(), Fail> {
    every_row(rt.alloc(), BODIES, told_bodies)
}
