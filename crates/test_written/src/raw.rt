//! Blocks whose bodies the writer leaves as they are. `calls` describes the rows. In the place of WHAT stands `TYPE/ORDER/DIGITS`: the type
//! of the block, its byte order, and the digits of its body. The two zeros after it have no meaning.

use crate::sections::run;
use crate::writing::Place;
use pcap_blocks::BlockType;
use pcap_core::{Endianness, PcapError, ResultParsing};
use pcap_written::{PcapNgWriter, RawBlock};
use std::alloc::Global;
use std::test::*;
use test_support::captures::{back, front};
use test_support::rows::are_digits;
use test_support::writers::Narrow;

// Returns the type of this name or number, or None if it is neither.
fn type_of(word: &str) -> Option<BlockType> {
    Some(match word {
        "section" => BlockType::SectionHeader,
        "interface" => BlockType::InterfaceDescription,
        "enhanced" => BlockType::EnhancedPacket,
        number => BlockType::Unknown(number.parse::<u32>().ok()?),
    })
}

/// Writes a block of a type, a byte order and digits with slashes between them.
pub(crate) fn put_raw(
    alloc: Global,
    writer: &mut PcapNgWriter<&mut Narrow>,
    what: &str,
) -> ResultParsing<()> {
    let (type_, rest) = what.split_once('/').unwrap_or((what, ""));
    let (order, digits) = rest.split_once('/').unwrap_or((rest, "?"));
    let Ok(body) = hex::decode(alloc, digits.as_bytes()) else {
        return Err(PcapError::InvalidField("no digits"));
    };
    let Some(type_) = type_of(type_) else {
        return Err(PcapError::InvalidField("no type"));
    };
    writer.write_raw_block(&RawBlock {
        type_,
        endianness: match order {
            "big" => Endianness::Big,
            "little" => Endianness::Little,
            _ => return Err(PcapError::InvalidField("no byte order")),
        },
        body: body.as_slice(),
    })
}

#[test]
fn raw_sections(rt: HostRuntime) -> Result<(), Fail> {
    let script = "
        section big 0 0 => 0a0d0d0a 0000001c 1a2b3c4d 0001 0000 ffffffffffffffff 0000001c
        Big 1: raw interface/big/0001000000040000 0 0 => 00000001 00000014 0001 0000 00040000 00000014
        Little 0: raw section/little/4d3c2b1a01000000ffffffffffffffff 0 0 => 0a0d0d0a 1c000000 4d3c2b1a 0100 0000 ffffffffffffffff 1c000000
        Little 1: raw interface/little/0100000000000400 0 0 => 01000000 14000000 0100 0000 00000400 14000000
    ";
    run(rt.alloc(), script)
}

// Returns whether a block of `len` bytes is written whole after the first section.
fn long_goes_out(alloc: Global, len: usize) -> Result<bool, Fail> {
    let body = vec![in alloc; 7u8; len]?;
    let block = RawBlock {
        type_: BlockType::EnhancedPacket,
        endianness: Endianness::Big,
        body: body.as_slice(),
    };
    let mut writer = PcapNgWriter::with_endianness(alloc, Endianness::Big, Vec::new(alloc))?;
    writer.write_raw_block(&block)?;
    let out = writer.into_writer();
    let (_head, behind) = out.as_slice().split_at(36);
    Ok(front(behind, len) == body.as_slice() && are_digits(back(behind, len), "0010000c"))
}

#[test]
fn long_raw_blocks(rt: HostRuntime) -> Result<(), Fail> {
    assert!(rt; long_goes_out(rt.alloc(), 0x10_0000)?);
    Ok(())
}

// Blocks that are refused in a section in big-endian byte order.
const REFUSED: &str = "
    raw enhanced/big/010203 0 0 => Block: (initial_len % 4) != 0
    raw 6/big/ 0 0 => UnknownBlock: type has a name
    raw section/big/ 0 0 => SectionHeaderBlock: invalid magic number
    raw section/big/01020304 0 0 => SectionHeaderBlock: invalid magic number
    raw section/big/4d3c2b1a 0 0 => Block: order of another section
    raw section/little/1a2b3c4d 0 0 => Block: order of another section
    raw enhanced/little/ 0 0 => Block: order of another section
";

#[test]
fn refused_raw_blocks(rt: HostRuntime) -> Result<(), Fail> {
    let place = Place {
        order: Endianness::Big,
        next: "raw 0/big/01020304 0 0 => 00000000 00000010 01020304 00000010",
        bytes: &[],
        letters: "",
    };
    place.check_all(rt.alloc(), REFUSED)
}
