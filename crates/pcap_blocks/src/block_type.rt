//! Types of blocks.

ghost use Rattle.std.specs.Prelude.{◌≡◌};
ghost use Rattle.pcap_blocks.specs.BlockType.{block_type, type_number};

/// The type of a block ('Block Types').
#[derive(Clone, Copy, Debug, PartialEq, Eq)]
pub enum BlockType {
    SectionHeader,
    InterfaceDescription,
    Packet,
    SimplePacket,
    NameResolution,
    InterfaceStatistics,
    EnhancedPacket,
    SystemdJournalExport,
    /// A type that this library doesn't know, by its number.
    Unknown(u32),
}

impl From<u32> for BlockType {
    ghost from_gives = { λ n type. type ≡ block_type n };

    fn from(src: u32) -> BlockType {
        match src {
            0x0A0D0D0A => BlockType::SectionHeader,
            1 => BlockType::InterfaceDescription,
            2 => BlockType::Packet,
            3 => BlockType::SimplePacket,
            4 => BlockType::NameResolution,
            5 => BlockType::InterfaceStatistics,
            6 => BlockType::EnhancedPacket,
            9 => BlockType::SystemdJournalExport,
            _ => BlockType::Unknown(src),
        }
    }
}

impl From<BlockType> for u32 {
    ghost from_gives = { λ type n. n ≡ type_number type };

    fn from(src: BlockType) -> u32 {
        match src {
            BlockType::SectionHeader => 0x0A0D0D0A,
            BlockType::InterfaceDescription => 1,
            BlockType::Packet => 2,
            BlockType::SimplePacket => 3,
            BlockType::NameResolution => 4,
            BlockType::InterfaceStatistics => 5,
            BlockType::EnhancedPacket => 6,
            BlockType::SystemdJournalExport => 9,
            BlockType::Unknown(n) => n,
        }
    }
}
