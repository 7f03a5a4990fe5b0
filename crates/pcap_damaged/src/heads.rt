//! The heads of packets and captures, and how plausible they are at a place.

ghost use Rattle.std.specs.Prelude.{◌≡◌, ◌<◌, ◌↔◌, IsTrue, MatchOption, length};
ghost use Rattle.pcap_core.specs.Answer.{number_in};
ghost use Rattle.pcap_classic.specs.Magic.{order_of};
ghost use Rattle.pcap_classic.specs.PacketText.{RecordHeadText, content_of, nanoseconds};
ghost use Rattle.pcap_classic.specs.Parser.{header_of};
ghost use Rattle.pcap_tolerant.specs.AsIs.{breaks_one, flaws_of};
ghost use Rattle.pcap_damaged.specs.Plausible.{BeginsCapture, Near, Plausible, Timely, stored_limit};
ghost use Rattle.pcap_damaged.specs.Heads.{head_in};

use byteorder::{BigEndian, ByteOrder, LittleEndian};
use pcap_classic::TsResolution;
use pcap_classic::pcap::{PACKET_LIMIT, Packet, PcapHeader, PcapParser};
use pcap_core::Endianness;
use pcap_core::fields::split_u32;

/// The most seconds between two times that are near each other: a day.
pub const NEAR: u32 = 86_400;

// Returns whether two times, in seconds, are near each other.
pub(crate) fn is_near(a: u32, b: u32) -> bool
    ensures { IsTrue result ↔ Near a b }
{
    u64::from(a) <= u64::from(b) + 86_400 && u64::from(b) <= u64::from(a) + 86_400
}

// Returns whether the seconds are near a time. Without a time, whether they are larger than any length.
fn is_timely(time: Option<u32>, seconds: u32) -> bool
    ensures { IsTrue result ↔ Timely time seconds }
{
    match time {
        Some(time) => is_near(time, seconds),
        None => seconds > PACKET_LIMIT,
    }
}

// Returns the longest data that a packet of the capture may have.
pub(crate) fn limit_of(parser: &PcapParser) -> u32
    ensures { result ≡ stored_limit (header_of parser.now) }
{
    let header = parser.header();
    if header.snaplen > 0 {
        header.snaplen.min(PACKET_LIMIT)
    } else {
        PACKET_LIMIT
    }
}

// Returns whether a packet is plausible at this time.
pub(crate) fn is_plausible(parser: &PcapParser, time: Option<u32>, packet: &Packet) -> bool
    ensures { IsTrue result ↔ Plausible (header_of parser.now) time (content_of packet.now) }
{
    packet.header.incl_len > 0
        && packet.header.incl_len <= limit_of(parser)
        && packet.header.ts_nsec < 1_000_000_000
        && is_timely(time, packet.header.ts_sec)
}

/// The four numbers of a packet's head, as written.
#[derive(Clone, Copy, Debug)]
pub struct Numbers {
    /// The time in seconds since 1970.
    pub seconds: u32,
    /// The fraction of the second, in the capture's resolution.
    pub fraction: u32,
    /// The number of stored bytes.
    pub included: u32,
    /// The number of bytes on the wire.
    pub original: u32,
}

// Returns the head at the front of a slice and what follows it, or None for fewer than 16 bytes.
fn split_head<B: ByteOrder>(slice: &[u8]) -> Option<(Numbers, &[u8])>
    ensures { MatchOption result (length slice.now < 16) (λ x. RecordHeadText B.number_of (head_in x.0) slice.now x.1.now) }
{
    if slice.len() < 16 {
        return None;
    }
    let (seconds, rest) = split_u32::<B>(slice);
    let (fraction, rest) = split_u32::<B>(rest);
    let (included, rest) = split_u32::<B>(rest);
    let (original, rest) = split_u32::<B>(rest);
    let numbers = Numbers {
        seconds,
        fraction,
        included,
        original,
    };
    Some((numbers, rest))
}

/// Returns the numbers of the head at the front of a slice and what follows it, or None for fewer than 16 bytes.
pub fn head_at<'a>(parser: &PcapParser, slice: &'a [u8]) -> Option<(Numbers, &'a [u8])>
    ensures { MatchOption result (length slice.now < 16)
        (λ x. RecordHeadText (number_in (order_of (header_of parser.now).magic_number)) (head_in x.0) slice.now x.1.now) }
{
    match parser.header().endianness() {
        Endianness::Big => split_head::<BigEndian>(slice),
        Endianness::Little => split_head::<LittleEndian>(slice),
    }
}

// Returns the nanoseconds of a fraction.
pub(crate) fn nanos_of(ts_resolution: TsResolution, fraction: u32) -> u64
    ensures { result ≡ nanoseconds ts_resolution fraction }
{
    match ts_resolution {
        TsResolution::NanoSecond => u64::from(fraction),
        TsResolution::MicroSecond => 1000 * u64::from(fraction),
    }
}

// Returns whether a head breaks one of the four rules.
pub(crate) fn breaks_a_rule(ts_resolution: TsResolution, head: Numbers) -> bool
    ensures { result ≡ breaks_one (flaws_of ts_resolution (head_in head)) }
{
    nanos_of(ts_resolution, head.fraction) > 4_294_967_295
        || head.included > PACKET_LIMIT
        || head.original > PACKET_LIMIT
        || head.included > head.original
}

// Returns whether a header has version 2.4, as all captures have.
fn is_current(header: &PcapHeader) -> bool
    ensures { IsTrue result ↔ ((header.now.version_major ≡ 2) × (header.now.version_minor ≡ 4)) }
{
    header.version_major == 2 && header.version_minor == 4
}

/// Returns whether the slice begins with the header of a classic capture of version 2.4, in any byte order and resolution.
pub fn begins_capture(slice: &[u8]) -> bool
    ensures { IsTrue result ↔ BeginsCapture slice.now }
{
    match PcapHeader::from_slice(slice) {
        Ok((_rest, header)) => is_current(&header),
        Err(_e) => false,
    }
}
