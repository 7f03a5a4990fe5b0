//! Interfaces, packets and times of PcapNg as a program in C sees them.

ghost use Rattle.std.specs.Prelude.{◌≡◌, IfOk, MatchOption};
ghost use Rattle.pcap_core.specs.Bytes.{IsBorrowed, cow_bytes};
ghost use Rattle.pcap_core.specs.Answer.{TellsWhere, number_in};
ghost use Rattle.pcap_blocks.specs.InterfaceDescription.{interface_of};
ghost use Rattle.pcap_blocks.specs.ParsedBlock.{BodySays, BodyMayGrow, EnhancedBody, body_of, ParsedIsBorrowed};
ghost use Rattle.pcap_blocks.specs.EnhancedPacket.{enhanced_of};
ghost use Rattle.pcapfile_values.specs.Bodies.{unit_shown, clock_shown, base_of, Found, BodyTells, EnhancedTells, PlainTells, NotPlain, ShowsInterfaceOf};
ghost use Rattle.pcapfile_values.specs.Bodies.{ShowsInterface, IsInterface, ShowsPacket, IsPacket, ShowsTime};

use crate::enhanced_options::behind_options;
use byteorder::{BigEndian, ByteOrder, LittleEndian};
use pcap_blocks::{
    BlockType, Clock, EnhancedPacketBlock, InterfaceDescriptionBlock, ParsedBlock, TimeUnit,
};
use pcap_core::{CowBytes, Endianness, ResultParsing};
use pcap_ng::pcapng::enhanced::split_body;
use std::alloc::Global;

/// An interface: the link type and the snapshot length of its packets, and how it counts time. In C: `pcapfile_interface`.
#[repr(C)]
#[derive(Clone, Copy)]
pub struct PcapfileInterface {
    pub link: u32,
    pub snaplen: u32,
    /// The base of the timestamp resolution, 10 or 2. The unit in seconds is this number to the power of minus `ts_exponent`.
    pub ts_base: u8,
    pub ts_exponent: u8,
    /// The seconds that the reader adds to each time.
    pub ts_offset: i64,
}

/// A packet of an interface, whose bytes are borrowed from the capture. In C: `pcapfile_ng_packet`.
#[repr(C)]
#[derive(Clone, Copy)]
pub struct PcapfileNgPacket<'a> {
    /// The number of the block's type: 6 for an enhanced packet, 3 for a simple packet, 2 for an obsolete packet.
    pub type_: u32,
    pub interface_id: u32,
    pub orig_len: u32,
    /// The time in units of the interface. 0 for a simple packet, which has no time.
    pub timestamp: u64,
    pub bytes: &'a [u8],
}

/// A time: seconds since 1970, and the nanoseconds after them. In C: `pcapfile_time`.
#[repr(C)]
#[derive(Clone, Copy)]
pub struct PcapfileTime {
    pub seconds: i64,
    pub nanoseconds: u32,
}

/// Returns the interface that a block of this type and body describes, or None if the block is no interface.
pub fn interface_of(
    alloc: Global,
    order: Endianness,
    type_: BlockType,
    body: &[u8],
) -> ResultParsing<Option<PcapfileInterface>>
    ensures { BodyTells ShowsInterface IsInterface order type_ body.now result }
{
    let (_rest, parsed) = parse_body(alloc, order, type_, body)?;
    Ok(interface_in(&parsed))
}

/// Returns the packet in a block of this type and body, or None if the block is no packet.
#[inline(always)]
pub fn packet_of<'a>(
    alloc: Global,
    order: Endianness,
    type_: BlockType,
    body: &'a [u8],
) -> ResultParsing<Option<PcapfileNgPacket<'a>>>
    ensures { BodyTells ShowsPacket IsPacket order type_ body.now result }
{
    match type_ {
        BlockType::EnhancedPacket => Ok(Some(enhanced(alloc, order, body)?)),
        _ => seldom_packet(alloc, order, type_, body),
    }
}

// Returns the packet in a block of any type. It is a function of its own, so that an enhanced packet doesn't pay for its locals.
#[cold]
#[inline(never)]
fn seldom_packet<'a>(
    alloc: Global,
    order: Endianness,
    type_: BlockType,
    body: &'a [u8],
) -> ResultParsing<Option<PcapfileNgPacket<'a>>>
    ensures { BodyTells ShowsPacket IsPacket order type_ body.now result }
{
    let (_rest, parsed) = parse_body(alloc, order, type_, body)?;
    Ok(packet_in(parsed))
}

// Returns the packet in the body of an enhanced packet block.
#[inline(always)]
fn enhanced<'a>(
    alloc: Global,
    order: Endianness,
    body: &'a [u8],
) -> ResultParsing<PcapfileNgPacket<'a>>
    ensures { EnhancedTells (number_in order) body.now result }
{
    match order {
        Endianness::Big => enhanced_in::<BigEndian>(alloc, body),
        Endianness::Little => enhanced_in::<LittleEndian>(alloc, body),
    }
}

// Returns what follows the body of a block of this type, and the parsed body.
#[inline(always)]
fn parse_body<'a>(
    alloc: Global,
    order: Endianness,
    type_: BlockType,
    body: &'a [u8],
) -> ResultParsing<(&'a [u8], ParsedBlock<'a>)>
    ensures tells { TellsWhere (BodyMayGrow (number_in order) type_ body.now) (BodySays (number_in order) type_ body.now) body_of result }
    ensures borrowed { IfOk result (λ x. ParsedIsBorrowed x.1) }
{
    match order {
        Endianness::Big => ParsedBlock::from_slice::<BigEndian>(alloc, type_, body),
        Endianness::Little => ParsedBlock::from_slice::<LittleEndian>(alloc, type_, body),
    }
}

impl PcapfileInterface {
    /// Returns the time after this many units of the interface, or None if its seconds don't fit 64 bits.
    pub fn time_at(&self, timestamp: u64) -> Option<PcapfileTime>
        ensures { ShowsTime (clock_shown self.now) timestamp result }
    {
        let found = self.clock().timestamp(timestamp);
        match i64::try_from(found.seconds) {
            Ok(seconds) => Some(PcapfileTime {
                seconds,
                nanoseconds: found.nanoseconds,
            }),
            Err(_) => None,
        }
    }

    // Returns the clock of the interface.
    fn clock(&self) -> Clock
        ensures { result ≡ clock_shown self.now }
    {
        Clock {
            unit: if self.ts_base == 2 {
                TimeUnit::Binary(self.ts_exponent)
            } else {
                TimeUnit::Decimal(self.ts_exponent)
            },
            offset: self.ts_offset,
        }
    }
}

// Returns the base and the exponent of a unit.
fn unit_parts(unit: TimeUnit) -> (u8, u8)
    ensures unit { unit_shown result.0 result.1 ≡ unit }
    ensures base { result.0 ≡ base_of unit }
{
    match unit {
        TimeUnit::Decimal(exponent) => (10, exponent),
        TimeUnit::Binary(exponent) => (2, exponent),
    }
}

// Returns the struct for the interface in a parsed body, or None if the body is no interface.
fn interface_in(parsed: &ParsedBlock) -> Option<PcapfileInterface>
    ensures { Found ShowsInterface IsInterface (body_of parsed.now) result }
{
    match parsed {
        ParsedBlock::InterfaceDescription(interface) => Some(interface_shown(interface)),
        _ => None,
    }
}

/// Returns the struct for an interface.
pub fn interface_shown(interface: &InterfaceDescriptionBlock) -> PcapfileInterface
    ensures { ShowsInterfaceOf (interface_of interface.now) result }
{
    let clock = interface.clock();
    let (ts_base, ts_exponent) = unit_parts(clock.unit);
    PcapfileInterface {
        link: u32::from(interface.linktype),
        snaplen: interface.snaplen,
        ts_base,
        ts_exponent,
        ts_offset: clock.offset,
    }
}

// Returns the struct for the packet in a parsed body, or None if the body is no packet.
#[inline(always)]
fn packet_in<'a>(parsed: ParsedBlock<'a>) -> Option<PcapfileNgPacket<'a>>
    requires { ParsedIsBorrowed parsed }
    ensures { Found ShowsPacket IsPacket (body_of parsed.entry) result }
{
    match parsed {
        ParsedBlock::EnhancedPacket(packet) => Some(enhanced_shown(packet)),
        ParsedBlock::SimplePacket(packet) => Some(PcapfileNgPacket {
            type_: 3,
            interface_id: 0,
            orig_len: packet.original_len,
            timestamp: 0,
            bytes: lent(packet.data_),
        }),
        ParsedBlock::Packet(packet) => Some(PcapfileNgPacket {
            type_: 2,
            interface_id: u32::from(packet.interface_id),
            orig_len: packet.original_len,
            timestamp: packet.timestamp,
            bytes: lent(packet.data_),
        }),
        _ => None,
    }
}

// Returns the packet in the body of an enhanced packet block. Skips the options if it needn't read them, so that it builds no list.
#[inline(always)]
fn enhanced_in<'a, B: ByteOrder>(
    alloc: Global,
    body: &'a [u8],
) -> ResultParsing<PcapfileNgPacket<'a>>
    ensures { EnhancedTells B.number_of body.now result }
{
    match plain_in::<B>(body) {
        Some(packet) => Ok(packet),
        None => read_enhanced::<B>(alloc, body),
    }
}

/// Returns the packet in the body of an enhanced packet block if it has only options for flags, hashes and counts of lost packets, or
/// none. Returns None if it has another option, or if the body is truncated or malformed.
#[inline(always)]
pub fn plain_in<B: ByteOrder>(body: &[u8]) -> Option<PcapfileNgPacket<'_>>
    ensures { MatchOption result (NotPlain B.number_of body.now) (PlainTells B.number_of body.now) }
{
    let parts = split_body::<B>(body)?;
    let _behind = behind_options::<B>(parts.options)?;
    Some(PcapfileNgPacket {
        type_: 6,
        interface_id: parts.interface,
        orig_len: parts.original,
        timestamp: parts.units,
        bytes: parts.bytes,
    })
}

// Returns the packet in the body of an enhanced packet block, whatever its options are.
#[cold]
#[inline(never)]
fn read_enhanced<'a, B: ByteOrder>(
    alloc: Global,
    body: &'a [u8],
) -> ResultParsing<PcapfileNgPacket<'a>>
    ensures { EnhancedTells B.number_of body.now result }
{
    let (_rest, packet) = EnhancedPacketBlock::from_slice::<B>(alloc, body)?;
    Ok(enhanced_shown(packet))
}

/// Returns the struct for an enhanced packet.
#[inline(always)]
pub fn enhanced_shown<'a>(packet: EnhancedPacketBlock<'a>) -> PcapfileNgPacket<'a>
    requires { IsBorrowed packet.data_ }
    ensures { ShowsPacket (EnhancedBody (enhanced_of packet.entry)) result }
{
    PcapfileNgPacket {
        type_: 6,
        interface_id: packet.interface_id,
        orig_len: packet.original_len,
        timestamp: packet.timestamp,
        bytes: lent(packet.data_),
    }
}

// Returns the borrowed bytes.
fn lent<'a>(bytes: CowBytes<'a>) -> &'a [u8]
    requires { IsBorrowed bytes }
    ensures { result.now ≡ cow_bytes bytes.entry }
{
    match bytes {
        CowBytes::Borrowed(lent) => lent,
        CowBytes::Owned(_) => unreachable!(),
    }
}
