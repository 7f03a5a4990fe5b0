//! The heads of packets, and whether they follow each other.

ghost use Rattle.std.specs.Prelude.{◌≡◌, ◌≤◌, ◌<◌, ◌+◌, ◌^◌, ◌↔◌, IsTrue, None, drop, length};
ghost use Rattle.pcap_variants.specs.Rows.{BeginsPacket, Near, Row, Timely};
ghost use Rattle.pcap_variants.specs.Variants.{CanBeHead, included_in, number_at};

use byteorder::{BigEndian, ByteOrder, LittleEndian};
use pcap_core::Endianness;

/// The number of usual bytes in the head of a packet.
pub(crate) const HEAD: usize = 16;

// Returns the number in four bytes of a head, from this offset on.
fn number(order: Endianness, head: &[u8], offset: usize) -> u32
    requires { offset + 4 ≤ length head.now }
    ensures { result ≡ number_at order offset head.now }
{
    let bytes = &head[offset..];
    match order {
        Endianness::Big => BigEndian::read_u32(bytes),
        Endianness::Little => LittleEndian::read_u32(bytes),
    }
}

/// Returns the stored length of the packet with this head.
pub(crate) fn included(order: Endianness, head: &[u8]) -> usize
    requires { length head.now ≡ 16 }
    ensures number { result ≡ included_in order head.now }
    ensures fits { result < 2 ^ 32 }
{
    number(order, head, 8) as usize
}

/// Returns whether these 16 bytes can be the head of a packet: its time or its original length is not 0, its fraction is below a second,
/// and its stored length is at most 262144 bytes.
pub(crate) fn can_be_head(order: Endianness, head: &[u8]) -> bool
    requires { length head.now ≡ 16 }
    ensures { IsTrue result ↔ CanBeHead order head.now }
{
    (number(order, head, 0) > 0 || number(order, head, 12) > 0)
        && number(order, head, 4) < 1_000_000
        && number(order, head, 8) <= 262_144
}

// Returns whether two times, in seconds, are at most a day apart.
fn is_near(a: u32, b: u32) -> bool
    ensures { IsTrue result ↔ Near a b }
{
    u64::from(a) <= u64::from(b) + 86_400 && u64::from(b) <= u64::from(a) + 86_400
}

// Returns whether the seconds are near a time. Without a time, whether they are larger than any length.
fn is_timely(time: Option<u32>, seconds: u32) -> bool
    ensures { IsTrue result ↔ Timely time seconds }
{
    match time {
        Some(time) => is_near(time, seconds),
        None => seconds > 262_144,
    }
}

/// Returns the bytes of a slice behind this many, or none if it has fewer.
pub(crate) fn behind(slice: &[u8], len: usize) -> &[u8]
    ensures { result.now ≡ drop len slice.now }
{
    slice.get(len..).unwrap_or_default()
}

// Returns whether the slice begins with a timely head and its further bytes.
fn begins_packet(order: Endianness, further: usize, time: Option<u32>, slice: &[u8]) -> bool
    requires { further ≤ 12 }
    ensures { IsTrue result ↔ BeginsPacket order further time slice.now }
{
    if slice.len() < HEAD + further {
        return false;
    }
    let head = &slice[..HEAD];
    can_be_head(order, head) && is_timely(time, number(order, head, 0))
}

/// Returns whether `k` packets with so many further bytes in their heads follow each other from the front of the slice, or fewer, at
/// least one, to its end. The first has seconds larger than any length, and each other one is at most a day from the one before.
pub(crate) fn is_row(order: Endianness, further: usize, slice: &[u8], k: usize) -> bool
    requires { further ≤ 12 }
    ensures { IsTrue result ↔ Row order further None k slice.now }
{
    let mut left = slice;
    let mut time = None;
    let mut more = k;
    while more > 0 {
        if !begins_packet(order, further, time, left) {
            return false;
        }
        let head = &left[..HEAD];
        let end = HEAD + further + included(order, head);
        if end == left.len() {
            return true;
        }
        time = Some(number(order, head, 0));
        left = behind(left, end);
        more -= 1;
    }
    true
}
