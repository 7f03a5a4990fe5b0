//! The properties of packets that lines show.

use pcap_times::Timestamp;

/// The properties of a packet that lines show.
#[derive(Clone, Copy, Debug, PartialEq, Eq)]
pub struct Seen {
    /// Its time, if it has one.
    pub time: Option<Timestamp>,
    /// The number of its stored bytes.
    pub captured: u64,
    /// Its length on the wire, in bytes.
    pub original: u32,
    /// The number of its interface, in a PcapNg capture.
    pub interface: Option<u32>,
}
