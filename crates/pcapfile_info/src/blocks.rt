//! The data of blocks that the totals use.

ghost use Rattle.std.specs.Prelude.{◌≡◌, map, option_map, slice_get, MatchResult};
ghost use Rattle.pcap_core.specs.Errors.{IsMemory};
ghost use Rattle.pcap_blocks.specs.InterfaceDescription.{interface_of};
ghost use Rattle.pcap_blocks.specs.ParsedBlock.{body_of};
ghost use Rattle.pcap_ng.specs.Bodies.{GrowsInBody};
ghost use Rattle.pcap_ng.specs.Frames.{framed_of};
ghost use Rattle.pcapfile_run.specs.BlockPackets.{snaplen_of};
ghost use Rattle.pcapfile_info.specs.Sights.{IsBodySight, IsFramedSight, IsStoredSight, IsTimeSeen, place_of};
ghost use Rattle.pcapfile_info.specs.Totals.{IsBelow, IsWithin};

use crate::others::{Kind, kind_of};
use crate::seen::{Seen, Sight};
use pcap_file::pcapng::{Block, BlockType, InterfaceDescriptionBlock, ParsedBlock, Timestamp};
use pcap_file::{PcapError, ResultParsing};
use std::alloc::{AllocError, Global};

/// Returns the index of an interface among all described interfaces. `number` is its number in the section, and the section's
/// interfaces are the last `own` of the `described` ones. `None` if the section has no such interface.
pub(crate) fn place_at(described: usize, own: usize, number: u32) -> Option<usize>
    ensures place { result ≡ place_of described own number }
    ensures below { IsBelow described result }
{
    let number = number as usize;
    if number < own && own <= described {
        return Some(described - own + number);
    }
    None
}

fn interface_at<'a>(
    interfaces: &'a [InterfaceDescriptionBlock<'static>],
    number: u32,
) -> Option<&'a InterfaceDescriptionBlock<'static>>
    ensures { option_map (λ interface. interface_of interface.now) result ≡ slice_get (map interface_of interfaces.now) number }
{
    interfaces.get(number as usize)
}

// Returns the snapshot length of an interface, in bytes, or 0 if the interface isn't described.
fn snaplen_at(interfaces: &[InterfaceDescriptionBlock<'static>], number: u32) -> u32
    ensures { result ≡ snaplen_of (slice_get (map interface_of interfaces.now) number) }
{
    match interface_at(interfaces, number) {
        None => 0,
        Some(interface) => interface.snaplen,
    }
}

// Converts a time in units of the interface's clock to a timestamp. `None` if the interface isn't described.
fn time_at(
    interfaces: &[InterfaceDescriptionBlock<'static>],
    number: u32,
    units: u64,
) -> Option<Timestamp>
    ensures { IsTimeSeen (slice_get (map interface_of interfaces.now) number) units result }
{
    match interface_at(interfaces, number) {
        None => None,
        Some(interface) => Some(interface.timestamp(units)),
    }
}

// Returns what the totals use of a block's body. `described` interfaces are described so far; the last of them are
// `interfaces`, those of the section.
fn sight_of_body(
    described: usize,
    interfaces: &[InterfaceDescriptionBlock<'static>],
    parsed: &ParsedBlock,
) -> Sight
    ensures sight { IsBodySight described (map interface_of interfaces.now) (body_of parsed.now) result }
    ensures within { IsWithin described result }
{
    match parsed {
        ParsedBlock::EnhancedPacket(block) => Sight::Packet(Seen {
            interface: place_at(described, interfaces.len(), block.interface_id),
            time: time_at(interfaces, block.interface_id, block.timestamp),
            stored: block.data_.as_slice().len() as u64,
            original: block.original_len,
        }),
        ParsedBlock::Packet(block) => Sight::Packet(Seen {
            interface: place_at(described, interfaces.len(), u32::from(block.interface_id)),
            time: time_at(interfaces, u32::from(block.interface_id), block.timestamp),
            stored: block.data_.as_slice().len() as u64,
            original: block.original_len,
        }),
        ParsedBlock::SimplePacket(block) => Sight::Packet(Seen {
            interface: place_at(described, interfaces.len(), 0),
            time: None,
            stored: block.stored(snaplen_at(interfaces, 0)).len() as u64,
            original: block.original_len,
        }),
        _ => Sight::Other(Kind::Unknown),
    }
}

// Returns what the totals use of a block of a packet type.
fn sight_of_stored(
    alloc: Global,
    described: usize,
    interfaces: &[InterfaceDescriptionBlock<'static>],
    block: &Block,
) -> ResultParsing<Sight>
    ensures { MatchResult result
        (λ sight. IsStoredSight described (map interface_of interfaces.now) (framed_of block.now) sight × IsWithin described sight)
        (λ e. IsMemory e × GrowsInBody (framed_of block.now)) }
{
    match block.parsed(alloc) {
        Ok(parsed) => Ok(sight_of_body(described, interfaces, &parsed)),
        Err(PcapError::OutOfMemory(_)) => Err(PcapError::OutOfMemory(AllocError)),
        Err(_) => Ok(Sight::Refused),
    }
}

/// Returns what the totals use of a block. `described` interfaces are described so far; the last of them are `interfaces`,
/// those of the section. `OutOfMemory` if there is no memory for the block's options.
pub(crate) fn sight_of_block(
    alloc: Global,
    described: usize,
    interfaces: &[InterfaceDescriptionBlock<'static>],
    block: &Block,
) -> ResultParsing<Sight>
    ensures { MatchResult result
        (λ sight. IsFramedSight described (map interface_of interfaces.now) (framed_of block.now) sight × IsWithin described sight)
        (λ e. IsMemory e × GrowsInBody (framed_of block.now)) }
{
    match block.type_ {
        BlockType::SectionHeader => Ok(Sight::Section),
        BlockType::InterfaceDescription => Ok(Sight::Interface),
        BlockType::EnhancedPacket | BlockType::Packet | BlockType::SimplePacket => {
            sight_of_stored(alloc, described, interfaces, block)
        }
        BlockType::NameResolution => Ok(Sight::Other(Kind::Names)),
        BlockType::InterfaceStatistics => Ok(Sight::Other(Kind::Statistics)),
        BlockType::SystemdJournalExport => Ok(Sight::Other(Kind::Journal)),
        BlockType::Unknown(number) => Ok(Sight::Other(kind_of(number))),
    }
}
