//! Blocks, their bodies, and the options and records of the bodies.

pub use crate::pcapng::block::Block;
pub use pcap_blocks::{
    BlockType, Clock, CustomBinaryOption, CustomUtf8Option, DecryptionSecrets, EnhancedPacketBlock,
    EnhancedPacketOption, HardwareAddress, InterfaceDescriptionBlock, InterfaceDescriptionOption,
    InterfaceStatisticsBlock, InterfaceStatisticsOption, Ipv4Record, Ipv6Record,
    NameResolutionBlock, NameResolutionOption, PacketBlock, PacketOption, PacketVerdict,
    ParsedBlock, Record, SectionHeaderBlock, SectionHeaderOption, SimplePacketBlock,
    SystemdJournalExportBlock, TimeUnit, Timestamp, UnknownBlock, UnknownOption, UnknownRecord,
    str_from_u8_null_terminated,
};
