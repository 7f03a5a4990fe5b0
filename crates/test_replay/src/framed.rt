//! Bodies by themselves, and in their blocks.

use byteorder::ByteOrder;
use pcap_file::pcapng::{BlockType, ParsedBlock, PcapNgParser};
use pcap_file::{Endianness, PcapError, ResultParsing};
use std::alloc::Global;
use test_support::captures::SECTION;

/// The block type of section headers.
const SECTION_HEADER: u32 = 0x0a0d0d0a;

/// A little-endian section header with no options.
const LITTLE_SECTION: [u8; 28] = [
    0x0a, 0x0d, 0x0d, 0x0a, 0x1c, 0, 0, 0, 0x4d, 0x3c, 0x2b, 0x1a, 1, 0, 0, 0, 0xff, 0xff, 0xff,
    0xff, 0xff, 0xff, 0xff, 0xff, 0x1c, 0, 0, 0,
];

/// Returns the result for a body of this type, and the result for its block in a capture if that differs.
pub(crate) fn parsed<B: ByteOrder>(
    alloc: Global,
    type_: BlockType,
    number: u32,
    body: &[u8],
) -> ResultParsing<String> {
    let (told, shown) = match ParsedBlock::from_slice::<B>(alloc, type_, body) {
        Ok((rest, block)) => (
            format!(in alloc; "ok {rest:?} {block:?}")?,
            format!(in alloc; "{block:?}")?,
        ),
        Err(error) => (refusal(alloc, &error)?, refusal(alloc, &error)?),
    };
    let Some(order) = order_of(Endianness::new::<B>(), number, body) else {
        return Ok(told);
    };
    let framed = match in_block(alloc, order, number, body) {
        Ok(framed) => framed,
        Err(error) => refusal(alloc, &error)?,
    };
    if framed.as_str() == shown.as_str() {
        Ok(told)
    } else {
        Ok(format!(in alloc; "{told}, and its block gives {framed}")?)
    }
}

// Returns the byte order of a block with this body: a section's own, or else that of its section. Returns None if no block has that
// order.
fn order_of(order: Endianness, number: u32, body: &[u8]) -> Option<Endianness> {
    if body.len() % 4 != 0 {
        return None;
    }
    if number != SECTION_HEADER {
        return Some(order);
    }
    match body {
        [0x1a, 0x2b, 0x3c, 0x4d, ..] => Some(Endianness::Big),
        [0x4d, 0x3c, 0x2b, 0x1a, ..] => Some(Endianness::Little),
        _ => None,
    }
}

fn push_number(bytes: &mut Vec<u8>, order: Endianness, number: u32) -> ResultParsing<()> {
    let digits = match order {
        Endianness::Big => number.to_be_bytes(),
        Endianness::Little => number.to_le_bytes(),
    };
    bytes.extend_from_slice(&digits)?;
    Ok(())
}

// Returns the result for the body in a block of this type, after a section header in this byte order.
fn in_block(alloc: Global, order: Endianness, number: u32, body: &[u8]) -> ResultParsing<String> {
    let len = u32::try_from(body.len()).unwrap_or(0).saturating_add(12);
    let mut capture = match order {
        Endianness::Big => Vec::from_slice(alloc, &SECTION)?,
        Endianness::Little => Vec::from_slice(alloc, &LITTLE_SECTION)?,
    };
    push_number(&mut capture, order, number)?;
    push_number(&mut capture, order, len)?;
    capture.extend_from_slice(body)?;
    push_number(&mut capture, order, len)?;
    after_section(alloc, capture.as_slice())
}

// Returns the result for the body of the first block after a capture's section header.
fn after_section(alloc: Global, capture: &[u8]) -> ResultParsing<String> {
    let (rest, mut parser) = PcapNgParser::new(alloc, capture)?;
    let (_rest, block) = parser.next_block(rest)?;
    let parsed = block.parsed(alloc)?;
    Ok(format!(in alloc; "{parsed:?}")?)
}

/// Returns the error as text.
pub(crate) fn refusal(alloc: Global, error: &PcapError) -> ResultParsing<String> {
    let mut told = String::new(alloc);
    match error {
        PcapError::IncompleteBuffer(lacking) => write!(told, "needs {lacking}")?,
        PcapError::IoError(_) => write!(told, "io")?,
        PcapError::Utf8Error(_) => write!(told, "utf8")?,
        PcapError::InvalidField(message) => write!(told, "invalid {message}")?,
        PcapError::OutOfMemory(_) => write!(told, "out of memory")?,
        _ => write!(told, "another error")?,
    }
    Ok(told)
}
