//! The data of items that the totals use.

use crate::others::Kind;
use pcap_file::pcapng::Timestamp;

/// The data of a packet that the totals use.
#[derive(Clone, Copy, Debug, PartialEq, Eq)]
pub struct Seen {
    /// The index of its interface among all interfaces described in the capture, in order. `None` if its interface isn't
    /// described.
    pub interface: Option<usize>,
    /// The packet's time. `None` for a simple packet, which has none, and if its interface isn't described.
    pub time: Option<Timestamp>,
    /// The number of stored bytes of the packet.
    pub stored: u64,
    /// The packet's original length, in bytes.
    pub original: u32,
}

/// The data of an item that the totals use. An item is a packet record or a block.
#[derive(Clone, Copy, Debug, PartialEq, Eq)]
pub enum Sight {
    /// A packet.
    Packet(Seen),
    /// A packet with a malformed body.
    Refused,
    /// The description of an interface.
    Interface,
    /// The header of a section.
    Section,
    /// Any other block, of this kind.
    Other(Kind),
}
