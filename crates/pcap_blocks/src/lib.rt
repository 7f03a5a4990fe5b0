//! Bodies of PcapNg blocks, read from slices: their values, options by name, times, and views of unknown blocks and
//! options.
//!
//! The format is that of the IETF draft draft-ietf-opsawg-pcapng; names in quotes are its sections. Lengths are in
//! bytes. The options are those of `pcap_options`.
#![tactic(auto)]

mod block_type;
mod enhanced_packet;
mod interface_description;
mod interface_statistics;
mod interface_times;
pub mod laws;
mod name_resolution;
mod named;
mod packet;
mod parsed_block;
mod section_header;
mod simple_packet;
mod stored_bytes;
mod stored_packet;
mod systemd_journal_export;
mod time;
mod unknown_block;
mod views;

pub use block_type::BlockType;
pub use enhanced_packet::EnhancedPacketBlock;
pub use interface_description::InterfaceDescriptionBlock;
pub use interface_statistics::InterfaceStatisticsBlock;
pub use name_resolution::NameResolutionBlock;
pub use packet::PacketBlock;
pub use parsed_block::ParsedBlock;
pub use pcap_options::{
    CustomBinaryOption, CustomUtf8Option, EnhancedPacketOption, HardwareAddress,
    InterfaceDescriptionOption, InterfaceStatisticsOption, Ipv4Record, Ipv6Record,
    NameResolutionOption, PacketOption, Record, SectionHeaderOption, UnknownOption, UnknownRecord,
    str_from_u8_null_terminated,
};
pub use pcap_times::{Clock, TimeUnit, Timestamp};
pub use section_header::SectionHeaderBlock;
pub use simple_packet::SimplePacketBlock;
pub use systemd_journal_export::SystemdJournalExportBlock;
pub use time::split_time;
pub use unknown_block::UnknownBlock;
pub use views::{DecryptionSecrets, PacketVerdict};
