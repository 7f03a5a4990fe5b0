//! Enhanced packets that are read in place, by their types, lengths and numbers alone.

ghost use Rattle.std.specs.Prelude.{◌≡◌, ◌+◌, ◌*◌, ◌^◌, MatchOption};
ghost use Rattle.pcap_core.specs.Answer.{number_in};
ghost use Rattle.pcap_ng.specs.Enhanced.{BodyTells, EnhancedFrame, HasNoRoom, MayBeRefused, NoFrame, NonePlain, PacketText, PartsText};

use byteorder::{BigEndian, ByteOrder, LittleEndian};
use pcap_blocks::EnhancedPacketBlock;
use pcap_core::Endianness;
use pcap_core::fields::{split_padded, split_u32};
use std::alloc::Global;

/// The type number of an enhanced packet block.
const ENHANCED: u32 = 6;

/// The numbers of an enhanced packet: its interface, its timestamp in units of the interface's clock, and its lengths.
#[derive(Clone, Copy)]
pub struct EnhancedNumbers {
    /// The number of its interface in the section.
    pub interface: u32,
    /// The packet's timestamp, in units of its interface.
    pub units: u64,
    /// How many bytes of the packet are stored.
    pub stored: usize,
    /// The packet's original length on the wire, in bytes.
    pub original: u32,
}

/// The parts of an enhanced packet's body, with its bytes and its options in place. The options aren't parsed.
#[derive(Clone, Copy)]
pub struct EnhancedParts<'a> {
    /// The number of its interface in the section.
    pub interface: u32,
    /// The packet's timestamp, in units of its interface.
    pub units: u64,
    /// The packet's original length on the wire, in bytes.
    pub original: u32,
    /// The stored bytes of the packet.
    pub bytes: &'a [u8],
    /// The bytes that follow the stored bytes and their padding in the body.
    pub options: &'a [u8],
}

/// Returns the bytes after the enhanced packet at the front of a slice, and the packet's numbers. None if no such block is whole
/// there, its body is malformed, or there is no memory for its options.
#[inline(always)]
pub fn packet_at(alloc: Global, order: Endianness, slice: &[u8]) -> Option<(&[u8], EnhancedNumbers)>
    ensures { MatchOption result (NonePlain order slice.now) (λ x. PacketText order x.1 slice.now x.0.now) }
{
    match order {
        Endianness::Big => packet_in::<BigEndian>(alloc, order, slice),
        Endianness::Little => packet_in::<LittleEndian>(alloc, order, slice),
    }
}

// Does the same with numbers in this byte order.
#[inline(always)]
fn packet_in<B: ByteOrder>(
    alloc: Global,
    order: Endianness,
    slice: &[u8],
) -> Option<(&[u8], EnhancedNumbers)>
    requires { number_in order ≡ B.number_of }
    ensures { MatchOption result (NonePlain order slice.now) (λ x. PacketText order x.1 slice.now x.0.now) }
{
    let (body, rest) = split_frame::<B>(order, slice)?;
    let packet = body_in::<B>(alloc, body)?;
    Some((rest, packet))
}

/// Returns the body of the enhanced packet at the front of a slice, and the bytes after its block. None if no such block is whole
/// there, with the same length at both ends. `order` is the byte order that `B` reads.
#[inline(always)]
pub fn split_frame<B: ByteOrder>(order: Endianness, slice: &[u8]) -> Option<(&[u8], &[u8])>
    requires { number_in order ≡ B.number_of }
    ensures { MatchOption result (NoFrame order slice.now) (λ x. EnhancedFrame order x.0.now slice.now x.1.now) }
{
    if slice.len() < 12 {
        return None;
    }
    let (number, after_number) = split_u32::<B>(slice);
    let (len, after) = split_u32::<B>(after_number);
    if number != ENHANCED || len % 4 != 0 {
        return None;
    }
    let used = len as usize;
    if used < 12 || slice.len() < used {
        return None;
    }
    let (body, behind) = after.split_at(used - 12);
    let (again, rest) = split_u32::<B>(behind);
    if again != len {
        return None;
    }
    Some((body, rest))
}

/// Returns the parts of an enhanced packet's body. None if the body is too short for its numbers, or for the stored bytes.
#[inline(always)]
pub fn split_body<B: ByteOrder>(body: &[u8]) -> Option<EnhancedParts<'_>>
    ensures { MatchOption result (HasNoRoom B.number_of body.now) (λ parts. PartsText B.number_of parts body.now) }
{
    if body.len() < 20 {
        return None;
    }
    let (interface, rest) = split_u32::<B>(body);
    let (high, rest) = split_u32::<B>(rest);
    let (low, rest) = split_u32::<B>(rest);
    let (captured, rest) = split_u32::<B>(rest);
    let (original, rest) = split_u32::<B>(rest);
    let (bytes, options) = split_padded(rest, captured as usize)?;
    Some(EnhancedParts {
        interface,
        units: joined(high, low),
        original,
        bytes,
        options,
    })
}

// Returns the number with these halves.
#[inline(always)]
fn joined(high: u32, low: u32) -> u64
    ensures { result ≡ high * 2 ^ 32 + low }
{
    (u64::from(high) << 32) + u64::from(low)
}

// Returns the numbers of the packet in a body. None if the body is malformed, or there is no memory for its options.
#[inline(always)]
fn body_in<B: ByteOrder>(alloc: Global, body: &[u8]) -> Option<EnhancedNumbers>
    ensures { MatchOption result (MayBeRefused B.number_of body.now) (BodyTells B.number_of body.now) }
{
    let parts = split_body::<B>(body)?;
    if !parts.options.is_empty() {
        return body_with_options::<B>(alloc, body);
    }
    Some(EnhancedNumbers {
        interface: parts.interface,
        units: parts.units,
        stored: parts.bytes.len(),
        original: parts.original,
    })
}

// Does the same for a body with options, out of line because most bodies have none.
#[cold]
#[inline(never)]
fn body_with_options<B: ByteOrder>(alloc: Global, body: &[u8]) -> Option<EnhancedNumbers>
    ensures { MatchOption result (MayBeRefused B.number_of body.now) (BodyTells B.number_of body.now) }
{
    match EnhancedPacketBlock::from_slice::<B>(alloc, body) {
        Ok((_rest, packet)) => Some(EnhancedNumbers {
            interface: packet.interface_id,
            units: packet.timestamp,
            stored: packet.data_.as_slice().len(),
            original: packet.original_len,
        }),
        Err(_) => None,
    }
}
