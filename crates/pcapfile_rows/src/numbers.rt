//! Numbers in blocks: their offsets, and the types of blocks.

use pcap_file::Endianness;

/// The type of a section header.
pub(crate) const SECTION: u32 = 0x0A0D_0D0A;

/// The type of an interface description.
pub(crate) const DESCRIPTION: u32 = 1;

/// The type of an obsolete packet, whose numbers have the offsets of an enhanced one's.
pub(crate) const OBSOLETE: u32 = 2;

/// The type of a simple packet.
pub(crate) const SIMPLE: u32 = 3;

/// The type of statistics.
pub(crate) const STATISTICS: u32 = 5;

/// The type of an enhanced packet.
pub(crate) const ENHANCED: u32 = 6;

/// The length of the shortest block, in bytes.
pub(crate) const SHORTEST: usize = 12;

/// The offset of the first length in a block.
pub(crate) const LENGTH: usize = 4;

/// The length of a block's head, in bytes.
pub(crate) const HEAD: usize = 8;

/// The length of what is behind the body of a block, in bytes.
pub(crate) const TRAILER: usize = 4;

/// The length of an option's head, in bytes.
pub(crate) const OPTION: usize = 4;

/// The offset of the interface in an enhanced packet or in statistics.
pub(crate) const INTERFACE: usize = 8;

/// The offset of an enhanced packet's stored length.
pub(crate) const STORED: usize = 20;

/// The offset of its original length.
pub(crate) const ORIGINAL: usize = 24;

/// The offset of its data.
pub(crate) const DATA: usize = 28;

/// The offset of a simple packet's data.
pub(crate) const SIMPLE_DATA: usize = 12;

/// The length of a number, in bytes.
const NUMBER: usize = 4;

/// Returns the number at this offset.
pub(crate) fn number_at(order: Endianness, bytes: &[u8], offset: usize) -> Option<u32> {
    let end = offset.saturating_add(NUMBER);
    let mut high_first: u32 = 0;
    for byte in bytes.get(offset..end)? {
        high_first = high_first << 8 | u32::from(*byte);
    }
    Some(match order {
        Endianness::Big => high_first,
        Endianness::Little => high_first.swap_bytes(),
    })
}
