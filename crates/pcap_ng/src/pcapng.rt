//! PcapNg captures: blocks in their frames and their bodies, with a parser, a reader and a writer.

mod ahead;
mod block;
mod block_header;
pub mod blocks;
pub(crate) mod buffered;
mod change;
pub(crate) mod copying;
pub mod enhanced;
mod fields;
mod framing;
mod parser;
mod reader;
mod state;
mod stretch;
mod taking;
mod to_block;

pub use ahead::BlocksAhead;
pub use block::Block;
pub use block_header::BlockHeader;
pub use change::Change;
pub use parser::PcapNgParser;
pub use pcap_blocks::{
    BlockType, Clock, CustomBinaryOption, CustomUtf8Option, DecryptionSecrets, EnhancedPacketBlock,
    EnhancedPacketOption, HardwareAddress, InterfaceDescriptionBlock, InterfaceDescriptionOption,
    InterfaceStatisticsBlock, InterfaceStatisticsOption, Ipv4Record, Ipv6Record,
    NameResolutionBlock, NameResolutionOption, PacketBlock, PacketOption, PacketVerdict,
    ParsedBlock, Record, SectionHeaderBlock, SectionHeaderOption, SimplePacketBlock,
    SystemdJournalExportBlock, TimeUnit, Timestamp, UnknownBlock, UnknownOption, UnknownRecord,
    str_from_u8_null_terminated,
};
pub use pcap_written::{
    BlockHead, PcapNgBlock, PcapNgWriter, RawBlock, RawPcapNgBlock, Unput, Unwritable,
};
pub use reader::PcapNgReader;
pub use to_block::ToBlock;
