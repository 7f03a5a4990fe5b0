//! Block bodies by themselves.

use crate::owned::rows::{HasTexts, Owned, compare, compare_with_texts, tell};
use crate::owned::texts::record_owns_texts;
use byteorder::{BigEndian, LittleEndian};
use pcap_blocks::{
    BlockType, EnhancedPacketBlock, InterfaceDescriptionBlock, InterfaceStatisticsBlock,
    NameResolutionBlock, PacketBlock, SectionHeaderBlock, SimplePacketBlock,
    SystemdJournalExportBlock, UnknownBlock,
};
use pcap_core::ResultParsing;
use std::alloc::Global;
use std::test::*;
use test_support::rows::bytes;

impl Owned for SectionHeaderBlock<'static> {
    fn owned(alloc: Global, body: &[u8]) -> ResultParsing<Self> {
        let (_rest, block) = SectionHeaderBlock::from_slice(alloc, body)?;
        block.into_owned(alloc)
    }
}

impl HasTexts for SectionHeaderBlock<'static> {
    fn owns_texts(&self) -> bool {
        self.options.owns_texts()
    }
}

impl Owned for InterfaceDescriptionBlock<'static> {
    fn owned(alloc: Global, body: &[u8]) -> ResultParsing<Self> {
        let (_rest, block) = InterfaceDescriptionBlock::from_slice::<BigEndian>(alloc, body)?;
        block.into_owned(alloc)
    }
}

impl HasTexts for InterfaceDescriptionBlock<'static> {
    fn owns_texts(&self) -> bool {
        self.options.owns_texts()
    }
}

impl Owned for EnhancedPacketBlock<'static> {
    fn owned(alloc: Global, body: &[u8]) -> ResultParsing<Self> {
        let (_rest, block) = EnhancedPacketBlock::from_slice::<BigEndian>(alloc, body)?;
        block.into_owned(alloc)
    }
}

impl HasTexts for EnhancedPacketBlock<'static> {
    fn owns_texts(&self) -> bool {
        self.options.owns_texts()
    }
}

impl Owned for PacketBlock<'static> {
    fn owned(alloc: Global, body: &[u8]) -> ResultParsing<Self> {
        let (_rest, block) = PacketBlock::from_slice::<LittleEndian>(alloc, body)?;
        block.into_owned(alloc)
    }
}

impl HasTexts for PacketBlock<'static> {
    fn owns_texts(&self) -> bool {
        self.options.owns_texts()
    }
}

impl Owned for SimplePacketBlock<'static> {
    fn owned(alloc: Global, body: &[u8]) -> ResultParsing<Self> {
        let (_rest, block) = SimplePacketBlock::from_slice::<BigEndian>(body)?;
        block.into_owned(alloc)
    }
}

impl Owned for NameResolutionBlock<'static> {
    fn owned(alloc: Global, body: &[u8]) -> ResultParsing<Self> {
        let (_rest, block) = NameResolutionBlock::from_slice::<BigEndian>(alloc, body)?;
        block.into_owned(alloc)
    }
}

impl HasTexts for NameResolutionBlock<'static> {
    fn owns_texts(&self) -> bool {
        self.records.iter().all(record_owns_texts) && self.options.owns_texts()
    }
}

impl Owned for InterfaceStatisticsBlock<'static> {
    fn owned(alloc: Global, body: &[u8]) -> ResultParsing<Self> {
        let (_rest, block) = InterfaceStatisticsBlock::from_slice::<LittleEndian>(alloc, body)?;
        block.into_owned(alloc)
    }
}

impl HasTexts for InterfaceStatisticsBlock<'static> {
    fn owns_texts(&self) -> bool {
        self.options.owns_texts()
    }
}

impl Owned for SystemdJournalExportBlock<'static> {
    fn owned(alloc: Global, body: &[u8]) -> ResultParsing<Self> {
        let (_rest, block) = SystemdJournalExportBlock::from_slice::<BigEndian>(body)?;
        block.into_owned(alloc)
    }
}

const SECTIONS: [(&str, &str); 3] = [
    (
        "1a2b3c4d 0001 0000 0000000000000010 0002 0003 783836 00 0003 0005 4c696e7578 000000 0000 0000",
        r#"SectionHeaderBlock { magic: 439041101, major_version: 1, minor_version: 0, section_length: 16, options: [Hardware("x86"), OS("Linux")] }"#,
    ),
    (
        "1a2b3c4d 0001 0000 ffffffffffffffff",
        "SectionHeaderBlock { magic: 439041101, major_version: 1, minor_version: 0, section_length: -1, options: [] }",
    ),
    (
        "4d3c2b1a 0100 0000 ffffffffffffffff",
        "SectionHeaderBlock { magic: 1295788826, major_version: 1, minor_version: 0, section_length: -1, options: [] }",
    ),
];

const INTERFACES: [(&str, &str); 3] = [
    (
        "0001 0000 00040000 0bac 0006 00007ed9 6869 0000 0063 0002 aabb ffff 0000 0000",
        r#"InterfaceDescriptionBlock { linktype: ETHERNET, reserved: 0, snaplen: 262144, options: [CustomUtf8(CustomUtf8Option { code: 2988, pen: 32473, value: "hi" }), Unknown(UnknownOption { code: 99, length: 2, value: Owned([170, 187]) })] }"#,
    ),
    (
        "0001 0000 00040000 0002 0004 65746830 0006 0006 000102030405 0000 0000 0000",
        r#"InterfaceDescriptionBlock { linktype: ETHERNET, reserved: 0, snaplen: 262144, options: [IfName("eth0"), IfMacAddr(Owned([0, 1, 2, 3, 4, 5]))] }"#,
    ),
    (
        "0001 0000 00040000",
        "InterfaceDescriptionBlock { linktype: ETHERNET, reserved: 0, snaplen: 262144, options: [] }",
    ),
];

const ENHANCED_PACKETS: [(&str, &str); 2] = [
    (
        "00000000 00000001 00000002 00000003 00000005 616263 ff 0004 0008 0000000000000007 0000 0000",
        "EnhancedPacketBlock { interface_id: 0, timestamp: 4294967298, captured_len: 3, original_len: 5, data_: Owned([97, 98, 99]), options: [DropCount(7)] }",
    ),
    (
        "00000001 00000000 00000005 00000000 00000000 0001 0002 6869 0000 0000 0000",
        r#"EnhancedPacketBlock { interface_id: 1, timestamp: 5, captured_len: 0, original_len: 0, data_: Owned([]), options: [Comment("hi")] }"#,
    ),
];

const PACKETS: [(&str, &str); 2] = [
    (
        "0100 0200 00000000 05000000 00000000 00000000",
        "PacketBlock { interface_id: 1, drop_count: 2, timestamp: 5, captured_len: 0, original_len: 0, data_: Owned([]), options: [] }",
    ),
    (
        "0100 0200 01000000 02000000 03000000 05000000 616263 ff 0100 0200 6869 0000 0000 0000",
        r#"PacketBlock { interface_id: 1, drop_count: 2, timestamp: 4294967298, captured_len: 3, original_len: 5, data_: Owned([97, 98, 99]), options: [Comment("hi")] }"#,
    ),
];

const NAMES: [(&str, &str); 2] = [
    (
        "0001 0008 7f000001 61006200 0000 0000 0003 0004 08080808 0000 0000",
        r#"NameResolutionBlock { records: [Ipv4(Ipv4Record { ip_addr: Owned([127, 0, 0, 1]), names: ["a", "b"] })], options: [NsDnsIpv4Addr(Owned([8, 8, 8, 8]))] }"#,
    ),
    (
        "0009 0001 aa ffffff 0000 0000 0002 0001 61 000000",
        r#"NameResolutionBlock { records: [Unknown(UnknownRecord { type_: 9, length: 1, value: Owned([170]) })], options: [NsDnsName("a")] }"#,
    ),
];

const STATISTICS: [(&str, &str); 2] = [
    (
        "01000000 02000000 03000000 0200 0900 01000000 02000000 ff 000000 0000 0000",
        "InterfaceStatisticsBlock { interface_id: 1, timestamp: 8589934595, options: [IsbStartTime(4294967298)] }",
    ),
    (
        "01000000 02000000 03000000 0100 0200 6869 0000 0000 0000",
        r#"InterfaceStatisticsBlock { interface_id: 1, timestamp: 8589934595, options: [Comment("hi")] }"#,
    ),
];

const SIMPLE_PACKETS: [(&str, &str); 1] = [(
    "00000001 61000000",
    "SimplePacketBlock { original_len: 1, data_: Owned([97, 0, 0, 0]) }",
)];

const JOURNALS: [(&str, &str); 1] = [(
    "5f 3d 0a",
    "SystemdJournalExportBlock { journal_entry: Owned([95, 61, 10]) }",
)];

#[test]
fn sections_and_interfaces(rt: HostRuntime) -> Result<(), Fail> {
    compare_with_texts::<SectionHeaderBlock>(rt.alloc(), "", &SECTIONS)?;
    compare_with_texts::<InterfaceDescriptionBlock>(rt.alloc(), "", &INTERFACES)?;
    compare_with_texts::<InterfaceStatisticsBlock>(rt.alloc(), "", &STATISTICS)
}

#[test]
fn packets(rt: HostRuntime) -> Result<(), Fail> {
    compare_with_texts::<EnhancedPacketBlock>(rt.alloc(), "", &ENHANCED_PACKETS)?;
    compare_with_texts::<PacketBlock>(rt.alloc(), "", &PACKETS)?;
    compare::<SimplePacketBlock>(rt.alloc(), "", &SIMPLE_PACKETS)
}

#[test]
fn names_and_journals(rt: HostRuntime) -> Result<(), Fail> {
    compare_with_texts::<NameResolutionBlock>(rt.alloc(), "", &NAMES)?;
    compare::<SystemdJournalExportBlock>(rt.alloc(), "", &JOURNALS)
}

// A block of an unknown type.
struct UnknownRow {
    type_: u32,
    len: u32,
    digits: &'static str,
    text: &'static str,
}

const UNKNOWN_BLOCKS: [UnknownRow; 2] = [
    UnknownRow {
        type_: 1,
        len: 2,
        digits: "aabb",
        text: "UnknownBlock { type_: Unknown(1), length: 2, value: Owned([170, 187]) }",
    },
    UnknownRow {
        type_: 255,
        len: 0,
        digits: "",
        text: "UnknownBlock { type_: Unknown(255), length: 0, value: Owned([]) }",
    },
];

// Returns the block of a row, owned. Its bytes are freed here.
fn unknown(alloc: Global, row: &UnknownRow) -> Result<UnknownBlock<'static>, Fail> {
    let body = bytes(alloc, row.digits)?;
    let type_ = BlockType::Unknown(row.type_);
    Ok(UnknownBlock::new(type_, row.len, body.as_slice()).into_owned(alloc)?)
}

// Checks that the block of a row is formatted as its text.
fn shows(alloc: Global, row: &UnknownRow) -> Result<(), Fail> {
    let block = unknown(alloc, row)?;
    tell(alloc, &block, row.text)
}

#[test]
fn unknown_blocks(rt: HostRuntime) -> Result<(), Fail> {
    for row in &UNKNOWN_BLOCKS {
        shows(rt.alloc(), row)?;
    }
    Ok(())
}
