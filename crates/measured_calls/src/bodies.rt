//! Calls on little-endian block bodies in memory, each after its length in four bytes.

ghost use Rattle.std.specs.Prelude.{◌<◌, length, IfSome};

use byteorder::{ByteOrder, LittleEndian};
use pcap_blocks::{
    EnhancedPacketBlock, EnhancedPacketOption, InterfaceDescriptionBlock, InterfaceStatisticsBlock,
    NameResolutionBlock, Record, SectionHeaderBlock, SimplePacketBlock,
};
use pcap_classic::ResultParsing;
use std::alloc::Global;
use test_support::sum_of_passes;

// The types that the bodies are parsed as.
#[derive(Clone, Copy)]
pub(crate) enum Body {
    Enhanced,
    Simple,
    Section,
    Interface,
    Statistics,
    Options,
    Record,
    Names,
}

pub(crate) fn named(call: &str) -> Option<Body> {
    match call {
        "enhanced" => Some(Body::Enhanced),
        "simple" => Some(Body::Simple),
        "section" => Some(Body::Section),
        "interface" => Some(Body::Interface),
        "statistics" => Some(Body::Statistics),
        "options" => Some(Body::Options),
        "record" => Some(Body::Record),
        "names" => Some(Body::Names),
        _ => None,
    }
}

fn names_in(record: &Record<'_>) -> usize {
    match record {
        Record::Ipv4(record) => record.names.len(),
        Record::Ipv6(record) => record.names.len(),
        _ => 0,
    }
}

// Returns a number from the parsed value.
fn number_in(alloc: Global, body: Body, bytes: &[u8]) -> ResultParsing<usize> {
    match body {
        Body::Enhanced => {
            let (_, block) = EnhancedPacketBlock::from_slice::<LittleEndian>(alloc, bytes)?;
            Ok(block.data_.len().wrapping_add(block.options.len()))
        }
        Body::Simple => {
            let (_, block) = SimplePacketBlock::from_slice::<LittleEndian>(bytes)?;
            Ok(block.data_.len())
        }
        Body::Section => {
            let (_, block) = SectionHeaderBlock::from_slice(alloc, bytes)?;
            Ok(block.options.len())
        }
        Body::Interface => {
            let (_, block) = InterfaceDescriptionBlock::from_slice::<LittleEndian>(alloc, bytes)?;
            Ok(block.options.len())
        }
        Body::Statistics => {
            let (_, block) = InterfaceStatisticsBlock::from_slice::<LittleEndian>(alloc, bytes)?;
            Ok(block.options.len())
        }
        Body::Options => {
            let (_, options) = EnhancedPacketOption::from_slice::<LittleEndian>(alloc, bytes)?;
            Ok(options.len())
        }
        Body::Record => {
            let (_, record) = Record::from_slice::<LittleEndian>(alloc, bytes)?;
            Ok(names_in(&record))
        }
        Body::Names => {
            let (_, block) = NameResolutionBlock::from_slice::<LittleEndian>(alloc, bytes)?;
            Ok(block.records.len())
        }
    }
}

// Returns the next body, and the bytes after it.
fn body_at(left: &[u8]) -> Option<(&[u8], &[u8])>
    ensures { IfSome result (λ found. length found.1.now < length left.now) }
{
    if left.len() < 4 {
        return None;
    }
    let (length, rest) = left.split_at(4);
    let length = LittleEndian::read_u32(length) as usize;
    if rest.len() < length {
        return None;
    }
    Some(rest.split_at(length))
}

fn parse_all(alloc: Global, body: Body, bytes: &[u8]) -> ResultParsing<u64> {
    let mut sum = 0u64;
    let mut left = bytes;
    while let Some((front, rest)) = body_at(left) {
        sum = sum.wrapping_add(number_in(alloc, body, front)? as u64);
        left = rest;
    }
    Ok(sum)
}

pub(crate) fn parse(alloc: Global, body: Body, passes: u64, bytes: &[u8]) -> ResultParsing<u64> {
    sum_of_passes!(passes { parse_all(alloc, body, bytes)? })
}
