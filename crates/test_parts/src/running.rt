//! Runs over the parts of captures.

use crate::captures::{BLOCK_LENGTHS, between, five_packets, is_packet, three_sections};
use pcap_classic::pcap::{Packet, PcapHeader, PcapParser};
use pcap_core::PcapError;
use pcap_file::PcapNgParser;
use pcap_file::pcapng::Block;
use pcap_items::Rest;
use pcap_parts::{NgCut, NgCuts, cut_pcap, cut_pcapng, parse_ng_part, parse_part, resume};
use std::alloc::Global;
use std::test::*;
use test_support::captures::{back, front};

// Returns how many packets the runs over the parts of a capture have. Each part must know how many packets come before it.
fn count_of_packets(alloc: Global, bytes: &[u8], parts: usize) -> Result<u8, Fail> {
    let cuts = cut_pcap(alloc, bytes, parts)?;
    let mut place = 0u8;
    for (k, cut) in cuts.cuts.iter().enumerate() {
        if cut.before != usize::from(place) {
            return Err(Fail::new("a cut counts other packets"));
        }
        let next = cuts.cuts.get(k.saturating_add(1));
        let end = next.map_or(123, |next| next.offset);
        place = behind_part(alloc, cuts.header, between(bytes, cut.offset, end), place)?;
    }
    Ok(place)
}

// Returns the index after the packets of a part, the first of which has the index `first`. The run must use the whole part.
fn behind_part(alloc: Global, header: PcapHeader, part: &[u8], first: u8) -> Result<u8, Fail> {
    let run = parse_part(alloc, header, part)?;
    if !matches!(run.rest, Rest::Clean) || run.used != part.len() {
        return Err(Fail::new("the run doesn't use its part"));
    }
    let next = behind(run.packets.as_slice(), first)?;
    if behind_parser(&PcapParser::with_header(header)?, part, first)? != next {
        return Err(Fail::new("a parser gives other packets"));
    }
    Ok(next)
}

// Does the same for a parser.
fn behind_parser(parser: &PcapParser, part: &[u8], first: u8) -> Result<u8, Fail> {
    let mut place = first;
    let mut left = part;
    for _ in 0..part.len() {
        if left.is_empty() {
            break;
        }
        let (rest, packet) = parser.next_packet(left)?;
        if !is_packet(&packet, place) {
            return Err(Fail::new("it is another packet"));
        }
        place = place.saturating_add(1);
        left = rest;
    }
    if !left.is_empty() {
        return Err(Fail::new("bytes are left"));
    }
    Ok(place)
}

// Does the same for these packets. Each must be the one at its index.
fn behind(packets: &[Packet], first: u8) -> Result<u8, Fail> {
    let mut place = first;
    for packet in packets {
        if !is_packet(packet, place) {
            return Err(Fail::new("it is another packet"));
        }
        place = place.saturating_add(1);
    }
    Ok(place)
}

#[test]
fn packets_of_parts(rt: HostRuntime) -> Result<(), Fail> {
    let bytes = five_packets(rt.alloc())?;
    for parts in 0..10 {
        let count = count_of_packets(rt.alloc(), bytes.as_slice(), parts)?;
        assert!(rt; count == 5, "{parts} parts");
    }
    Ok(())
}

// Returns how many blocks the runs over the parts of a capture have, with the first section header.
fn count_of_blocks(alloc: Global, bytes: &[u8], parts: usize) -> Result<usize, Fail> {
    let cuts = cut_pcapng(alloc, bytes, parts)?;
    let mut place = 1usize;
    for (k, cut) in cuts.cuts.iter().enumerate() {
        let next = cuts.cuts.get(k.saturating_add(1));
        let end = next.map_or(324, |next| next.at.offset);
        let parser = resumed(alloc, bytes, &cuts, cut)?;
        place = behind_ng_part(alloc, parser, between(bytes, cut.at.offset, end), place)?;
    }
    Ok(place)
}

// Returns the parser at a cut. Its byte order and number of interfaces must be those of the part.
fn resumed(alloc: Global, bytes: &[u8], cuts: &NgCuts, cut: &NgCut) -> Result<PcapNgParser, Fail> {
    let parser = resume(alloc, bytes, cut.header, cuts.interfaces_at(cut))?;
    if parser.interfaces().len() != cut.interfaces
        || parser.section().endianness().is_big() != (cut.header != 140)
    {
        return Err(Fail::new("another section or other interfaces are in force"));
    }
    Ok(parser)
}

// Returns the index after the blocks of a part, the first of which has the index `first`. The run must use the whole part.
fn behind_ng_part(
    alloc: Global,
    parser: PcapNgParser,
    part: &[u8],
    first: usize,
) -> Result<usize, Fail> {
    let run = parse_ng_part(alloc, parser, part)?;
    if !matches!(run.rest, Rest::Clean) || run.used != part.len() {
        return Err(Fail::new("the run doesn't use its part"));
    }
    behind_blocks(run.blocks.as_slice(), first)
}

// Does the same for these blocks. Each must have the length at its index.
fn behind_blocks(blocks: &[Block], first: usize) -> Result<usize, Fail> {
    let mut place = first;
    for block in blocks {
        if Some(&block.initial_len) != BLOCK_LENGTHS.get(place) {
            return Err(Fail::new("it is another block"));
        }
        place = place.saturating_add(1);
    }
    Ok(place)
}

#[test]
fn blocks_of_parts(rt: HostRuntime) -> Result<(), Fail> {
    let bytes = three_sections(rt.alloc())?;
    for parts in 0..10 {
        let count = count_of_blocks(rt.alloc(), bytes.as_slice(), parts)?;
        assert!(rt; count == 14, "{parts} parts");
    }
    Ok(())
}

// Runs over the last part of a truncated capture, with a parser from these places. Returns how many blocks there are, how many bytes they
// use, and how many are missing: 0 if nothing follows, None if the next block is refused.
fn last_part(
    alloc: Global,
    header: usize,
    interfaces: &[usize],
) -> Result<(usize, usize, Option<usize>), Fail> {
    let bytes = three_sections(alloc)?;
    let torn = front(bytes.as_slice(), 230);
    let parser = resume(alloc, torn, header, interfaces)?;
    let run = parse_ng_part(alloc, parser, back(torn, 188))?;
    let missing = match run.rest {
        Rest::Clean => Some(0),
        Rest::Needs(missing) => Some(missing),
        Rest::Refused(_) => None,
    };
    Ok((run.blocks.len(), run.used, missing))
}

#[test]
fn last_parts(rt: HostRuntime) -> Result<(), Fail> {
    assert_eq!(rt; last_part(rt.alloc(), 140, &[168])?, (1, 20, Some(18)));
    // In the byte order of the section before, the block at 188 has another length.
    let (blocks, _used, missing) = last_part(rt.alloc(), 0, &[28, 88])?;
    assert!(rt; blocks == 0 && missing != Some(0));
    Ok(())
}

// Returns whether no run is made with a header with this magic number.
fn is_refused(alloc: Global, magic_number: u32) -> bool {
    let header = PcapHeader {
        magic_number,
        ..PcapHeader::default()
    };
    matches!(
        &parse_part(alloc, header, &[]),
        Err(PcapError::InvalidField(_))
    )
}

#[test]
fn no_header(rt: HostRuntime) {
    assert!(rt; is_refused(rt.alloc(), 7));
}
