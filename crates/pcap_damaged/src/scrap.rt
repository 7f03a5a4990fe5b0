//! Bytes of captures that are left out, because they are no packets or blocks.

use pcap_core::rules::Rule;

/// The kind of bytes that are left out.
#[derive(Clone, Copy, Debug, PartialEq, Eq)]
pub enum Scrap {
    /// Corrupt bytes between packet records.
    NoPackets,
    /// Corrupt bytes between blocks.
    NoBlocks,
    /// The beginning of a truncated packet record.
    PacketFront,
    /// The beginning of a truncated block.
    BlockFront,
    /// The header of another capture.
    OtherHeader,
    /// Packets of another link type.
    OtherLink,
    /// Blocks of an interface that isn't described.
    Undescribed,
}

/// The bytes of a capture that were left out so far.
#[derive(Clone, Copy, Debug, PartialEq, Eq)]
pub struct LeftOut {
    /// The number of bytes.
    pub bytes: u64,
    /// The kind of the last of them.
    pub scrap: Scrap,
    /// The rule that is broken at the beginning of those last bytes, if any.
    pub rule: Option<Rule>,
}
