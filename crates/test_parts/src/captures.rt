//! The captures that the tests cut into parts.

use pcap_classic::pcap::Packet;
use std::alloc::Global;
use std::test::Fail;
use test_support::captures::{back, front};
use test_support::rows::bytes;

/// Returns the bytes from one place to another.
pub(crate) fn between(bytes: &[u8], from: usize, to: usize) -> &[u8] {
    back(front(bytes, to), from)
}

/// The length of each packet. Its bytes are its index in this list, and its time is that number of seconds.
pub(crate) const LENGTHS: [u8; 5] = [3, 0, 5, 1, 10];

// A little-endian capture of these packets: 24 bytes, and then 19, 16, 21, 17 and 26.
const FIVE_PACKETS: &str = "
    d4c3b2a1 0200 0400 00000000 00000000 00100000 01000000
    00000000 07000000 03000000 03000000 000000
    01000000 07000000 00000000 00000000
    02000000 07000000 05000000 05000000 0202020202
    03000000 07000000 01000000 01000000 03
    04000000 07000000 0a000000 0a000000 04040404040404040404
";

/// Returns that capture.
pub(crate) fn five_packets(alloc: Global) -> Result<Vec<u8>, Fail> {
    bytes(alloc, FIVE_PACKETS)
}

/// Returns whether this packet is the one at this index in the list.
pub(crate) fn is_packet(packet: &Packet<'_>, place: u8) -> bool {
    let len = LENGTHS.get(usize::from(place)).copied().unwrap_or(0xff);
    packet.header.ts_sec == u32::from(place)
        && packet.data_.len() == usize::from(len)
        && packet.data_.as_slice().iter().all(|byte| *byte == place)
}

/// The length of each block of `three_sections`, with the first section header.
pub(crate) const BLOCK_LENGTHS: [u32; 14] = [
    28, 20, 24, 16, 20, 32, 28, 20, 20, 40, 28, 12, 20, 16,
];

// A big-endian section with two interfaces, a little-endian one with one, and a big-endian one with one. Its blocks begin at 0, 28, 48, 72,
// 88, 108, 140, 168, 188, 208, 248, 276, 288 and 308, and it ends at 324. The section headers are at 0, 140 and 248, and the interface
// descriptions at 28, 88, 168 and 288.
const THREE_SECTIONS: &str = "
    0a0d0d0a 0000001c 1a2b3c4d 0001 0000 ffffffffffffffff 0000001c
    00000001 00000014 0001 0000 00040000 00000014
    00000077 00000018 00000000 00000000 00000000 00000018
    00000077 00000010 00000000 00000010
    00000001 00000014 0001 0000 00040000 00000014
    00000077 00000020 00000000 00000000 00000000 00000000 00000000 00000020
    0a0d0d0a 1c000000 4d3c2b1a 0100 0000 ffffffffffffffff 1c000000
    01000000 14000000 0100 0000 00000400 14000000
    77000000 14000000 00000000 00000000 14000000
    77000000 28000000 00000000 00000000 00000000 00000000 00000000 00000000 00000000 28000000
    0a0d0d0a 0000001c 1a2b3c4d 0001 0000 ffffffffffffffff 0000001c
    00000077 0000000c 0000000c
    00000001 00000014 0001 0000 00040000 00000014
    00000077 00000010 00000000 00000010
";

/// Returns that capture.
pub(crate) fn three_sections(alloc: Global) -> Result<Vec<u8>, Fail> {
    bytes(alloc, THREE_SECTIONS)
}

// 28 bytes that are no capture.
const ZEROS: &str = "00000000 00000000 00000000 00000000 00000000 00000000 00000000";

/// Returns the capture of this name, or a failure if no capture has it. `refused` has a length above 262144 in its fourth packet. `differs`
/// has a wrong second length in its block at 108.
pub(crate) fn named(alloc: Global, name: &str) -> Result<Vec<u8>, Fail> {
    let (digits, from, to) = match name {
        "five" => (FIVE_PACKETS, "-", "-"),
        "refused" => (FIVE_PACKETS, "07000000 01000000 01", "07000000 01000001 01"),
        "three" => (THREE_SECTIONS, "-", "-"),
        "differs" => (THREE_SECTIONS, "00000000 00000020", "00000000 0000001f"),
        "zeros" => (ZEROS, "-", "-"),
        _ => return Err(Fail::new("an unknown capture")),
    };
    bytes(alloc, digits.replace(alloc, from, to)?.as_str())
}
