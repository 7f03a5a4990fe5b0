//! The parser, block by block.

use crate::told::{filled, tell_end, tell_state};
use pcap_file::pcapng::blocks::ParsedBlock;
use pcap_file::pcapng::{Block, BlockType, PcapNgParser};
use std::alloc::Global;
use std::test::Fail;
use test_support::captures::{SECTION, SECTIONS, back, front};
use test_support::readers::Halting;
use test_support::rows::{bytes, every_row, same};

// Adds the interface of the packet in this block.
fn tell_interface(
    alloc: Global,
    parser: &PcapNgParser,
    block: &Block,
    told: &mut String,
) -> Result<(), Fail> {
    match &block.parsed(alloc)? {
        ParsedBlock::EnhancedPacket(packet) => {
            write!(told, "{:?} ", parser.packet_interface(packet))?;
        }
        _ => told.push_str("no packet ")?,
    }
    Ok(())
}

// Checks that a parser of a row's block gives the interface of its packet or the error, and then has the state of the row.
fn gives(alloc: Global, parser: &mut PcapNgParser, row: &str) -> Result<(), Fail> {
    let (digits, wanted) = row.split_once("=>").ok_or("a row with no arrow")?;
    let slice = bytes(alloc, digits)?;
    let mut told = String::new(alloc);
    match &parser.next_block(slice.as_slice()) {
        Ok((_rest, block)) => tell_interface(alloc, parser, block, &mut told)?,
        Err(error) => tell_end(&mut told, Some(error))?,
    }
    tell_state(&mut told, parser.section(), parser.interfaces())?;
    same(told.as_str(), wanted.trim())
}

// Blocks after the capture with two sections: refused ones, which change nothing, packets of an interface and of none, and an interface.
const BLOCKS: &str = r#"
    01000000 10000000 01000000 10000000 => InvalidField("InterfaceDescriptionBlock: block length < 8") Little 1.0 -1 [] with ETHERNET/262144/[]
    0a0d0d0a 10000000 4d3c2b1a 10000000 => InvalidField("SectionHeaderBlock: block length < 16") Little 1.0 -1 [] with ETHERNET/262144/[]
    0a0d0d0a 10000000 00000000 10000000 => InvalidField("SectionHeaderBlock: invalid magic number") Little 1.0 -1 [] with ETHERNET/262144/[]
    01000000 14000000 0100 0000 00000400 18000000 => InvalidField("Block initial_length != trailer_length") Little 1.0 -1 [] with ETHERNET/262144/[]
    01000000 1c000000 0100 0000 00000400 0200 0100 ff 000000 1c000000 => Utf8Error(Utf8Error { valid_up_to: 0, error_len: Some(1) }) Little 1.0 -1 [] with ETHERNET/262144/[]
    01000000 14000000 0100 0000 00000400 => IncompleteBuffer(4) Little 1.0 -1 [] with ETHERNET/262144/[]
    => IncompleteBuffer(12) Little 1.0 -1 [] with ETHERNET/262144/[]
    06000000 20000000 00000000 00000000 00000000 00000000 00000000 20000000 => Some(InterfaceDescriptionBlock { linktype: ETHERNET, reserved: 0, snaplen: 262144, options: [] }) Little 1.0 -1 [] with ETHERNET/262144/[]
    06000000 20000000 01000000 00000000 00000000 00000000 00000000 20000000 => None Little 1.0 -1 [] with ETHERNET/262144/[]
    06000000 20000000 ffffffff 00000000 00000000 00000000 00000000 20000000 => None Little 1.0 -1 [] with ETHERNET/262144/[]
    01000000 20000000 0100 0000 00000400 0200 0100 61 000000 0000 0000 20000000 => no packet Little 1.0 -1 [] with ETHERNET/262144/[] ETHERNET/262144/[IfName("a")]
"#;

#[test]
fn one_block_after_another(rt: HostRuntime) -> Result<(), Fail> {
    let (mut left, mut parser) = PcapNgParser::new(rt.alloc(), &SECTIONS)?;
    for _turn in 0..3 {
        let (rest, _block) = parser.next_block(left)?;
        left = rest;
    }
    for row in filled(BLOCKS)?.lines() {
        gives(rt.alloc(), &mut parser, row)?;
    }
    Ok(())
}

// Formats a block and its body after both outlived the slice.
fn kept(alloc: Global, block: Block) -> Result<String, Fail> {
    let body = block.parsed(alloc)?.into_owned(alloc)?;
    let block = block.into_owned(alloc)?;
    Ok(format!(in alloc; "{block:?} {body:?}")?)
}

// Formats the block of these bytes after a big-endian section: what is left, its byte order, and the block that is lent and its body. An
// owned block must give the same.
fn both(alloc: Global, slice: &[u8]) -> Result<String, Fail> {
    let (_none, mut parser) = PcapNgParser::new(alloc, &SECTION)?;
    let (rest, block) = parser.next_block(slice)?;
    let lent = format!(in alloc; "{block:?} {:?}", block.parsed(alloc)?)?;
    let told = format!(in alloc; "{rest:?} {:?} {lent}", block.endianness())?;
    let owned = lent.replace(alloc, "Borrowed(", "Owned(")?;
    same(kept(alloc, block)?.as_str(), owned.as_str())?;
    Ok(told)
}

#[test]
fn owned_blocks(rt: HostRuntime) -> Result<(), Fail> {
    let table = r#"
        000000ff 0000000c 0000000c => [] Big Block { type_: Unknown(255), initial_len: 12, body: Borrowed([]), trailer_len: 12, endianness: Big } Unknown(UnknownBlock { type_: Unknown(255), length: 0, value: Borrowed([]) })
        00000003 00000014 00000001 61000000 00000014 => [] Big Block { type_: SimplePacket, initial_len: 20, body: Borrowed([0, 0, 0, 1, 97, 0, 0, 0]), trailer_len: 20, endianness: Big } SimplePacket(SimplePacketBlock { original_len: 1, data_: Borrowed([97, 0, 0, 0]) })
        00000009 00000010 5f3d0a00 00000010 => [] Big Block { type_: SystemdJournalExport, initial_len: 16, body: Borrowed([95, 61, 10, 0]), trailer_len: 16, endianness: Big } SystemdJournalExport(SystemdJournalExportBlock { journal_entry: Borrowed([95, 61, 10, 0]) })
    "#;
    every_row(rt.alloc(), table, both)
}

// Returns how many bytes of a slice are left after a parser's next block, if one comes.
fn left_behind(parser: &mut PcapNgParser, slice: &[u8]) -> Option<usize> {
    match &parser.next_block(slice) {
        Ok((rest, _)) => Some(rest.len()),
        Err(_) => None,
    }
}

// Returns whether a parser takes a section of 28 bytes from a stream.
fn takes_section(parser: &mut PcapNgParser, stream: &mut Halting) -> bool {
    let is_section = match &parser.read_block(stream) {
        Ok(Some(block)) => block.type_ == BlockType::SectionHeader,
        _ => false,
    };
    is_section && stream.taken == 28
}

// Checks that a parser takes a block from a slice, then one from a stream, and then one from a slice again.
fn goes_between(alloc: Global, step: usize) -> Result<(), Fail> {
    let mut first = Halting::new(alloc, front(&SECTIONS, 28), step)?;
    let mut second = Halting::new(alloc, back(&SECTIONS, 48), step)?;
    let mut told = String::new(alloc);
    let mut parser = PcapNgParser::from_reader(alloc, &mut first)?;
    let before = left_behind(&mut parser, back(&SECTIONS, 28));
    let is_section = takes_section(&mut parser, &mut second);
    let after = left_behind(&mut parser, back(&SECTIONS, 76));
    write!(told, "{before:?} {is_section} {after:?} ")?;
    tell_state(&mut told, parser.section(), parser.interfaces())?;
    same(
        told.as_str(),
        "Some(48) true Some(0) Little 1.0 -1 [] with ETHERNET/262144/[]",
    )
}

#[test]
fn a_slice_between_streams(rt: HostRuntime) -> Result<(), Fail> {
    for step in [1, 100] {
        goes_between(rt.alloc(), step)?;
    }
    Ok(())
}
