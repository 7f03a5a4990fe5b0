//! Bodies of all types, and clones of bodies with borrowed bytes.

use crate::owned::rows::tell;
use byteorder::BigEndian;
use pcap_blocks::{BlockType, ParsedBlock};
use std::alloc::Global;
use std::test::*;
use test_support::rows::bytes;

// Returns the body with these digits, owned. The bytes that it was read from are freed here.
fn owned(alloc: Global, type_: BlockType, digits: &str) -> Result<ParsedBlock<'static>, Fail> {
    let body = bytes(alloc, digits)?;
    let (_rest, block) = ParsedBlock::from_slice::<BigEndian>(alloc, type_, body.as_slice())?;
    Ok(block.into_owned(alloc)?)
}

// Checks that the body with these digits, owned, gives this text.
fn shows_owned(alloc: Global, type_: BlockType, digits: &str, text: &str) -> Result<(), Fail> {
    let block = owned(alloc, type_, digits)?;
    tell(alloc, &block, text)
}

// Does the same while its bytes are borrowed.
fn shows_borrowed(alloc: Global, type_: BlockType, digits: &str, text: &str) -> Result<(), Fail> {
    let body = bytes(alloc, digits)?;
    let text = text.replace(alloc, "Owned(", "Borrowed(")?;
    let (_rest, block) = ParsedBlock::from_slice::<BigEndian>(alloc, type_, body.as_slice())?;
    tell(alloc, &block, text.as_str())
}

const BODIES: [(BlockType, &str, &str); 10] = [
    (
        BlockType::SectionHeader,
        "1a2b3c4d 0001 0000 0000000000000010 0002 0003 783836 00 0003 0005 4c696e7578 000000 0000 0000",
        r#"SectionHeader(SectionHeaderBlock { magic: 439041101, major_version: 1, minor_version: 0, section_length: 16, options: [Hardware("x86"), OS("Linux")] })"#,
    ),
    (
        BlockType::InterfaceDescription,
        "0001 0000 00040000 0bac 0006 00007ed9 6869 0000 0063 0002 aabb ffff 0000 0000",
        r#"InterfaceDescription(InterfaceDescriptionBlock { linktype: ETHERNET, reserved: 0, snaplen: 262144, options: [CustomUtf8(CustomUtf8Option { code: 2988, pen: 32473, value: "hi" }), Unknown(UnknownOption { code: 99, length: 2, value: Owned([170, 187]) })] })"#,
    ),
    (
        BlockType::Packet,
        "0001 0002 00000000 00000005 00000000 00000000 0001 0002 6869 0000 0bad 0005 00007ed9 ff 000000 0000 0000",
        r#"Packet(PacketBlock { interface_id: 1, drop_count: 2, timestamp: 5, captured_len: 0, original_len: 0, data_: Owned([]), options: [Comment("hi"), CustomBinary(CustomBinaryOption { code: 2989, pen: 32473, value: Owned([255]) })] })"#,
    ),
    (
        BlockType::SimplePacket,
        "00000001 61000000",
        "SimplePacket(SimplePacketBlock { original_len: 1, data_: Owned([97, 0, 0, 0]) })",
    ),
    (
        BlockType::NameResolution,
        "0001 0008 7f000001 61006200 0000 0000 0003 0004 08080808 0000 0000",
        r#"NameResolution(NameResolutionBlock { records: [Ipv4(Ipv4Record { ip_addr: Owned([127, 0, 0, 1]), names: ["a", "b"] })], options: [NsDnsIpv4Addr(Owned([8, 8, 8, 8]))] })"#,
    ),
    (
        BlockType::InterfaceStatistics,
        "00000001 00000002 00000003 0002 0009 00000001 00000002 ff 000000 0000 0000",
        "InterfaceStatistics(InterfaceStatisticsBlock { interface_id: 1, timestamp: 8589934595, options: [IsbStartTime(4294967298)] })",
    ),
    (
        BlockType::EnhancedPacket,
        "00000000 00000001 00000002 00000003 00000005 616263 ff 0004 0008 0000000000000007 0000 0000",
        "EnhancedPacket(EnhancedPacketBlock { interface_id: 0, timestamp: 4294967298, captured_len: 3, original_len: 5, data_: Owned([97, 98, 99]), options: [DropCount(7)] })",
    ),
    (
        BlockType::SystemdJournalExport,
        "5f 3d 0a",
        "SystemdJournalExport(SystemdJournalExportBlock { journal_entry: Owned([95, 61, 10]) })",
    ),
    (
        BlockType::Unknown(1),
        "aabb",
        "Unknown(UnknownBlock { type_: Unknown(1), length: 2, value: Owned([170, 187]) })",
    ),
    (
        BlockType::Unknown(255),
        "",
        "Unknown(UnknownBlock { type_: Unknown(255), length: 0, value: Owned([]) })",
    ),
];

#[test]
fn owned_bodies(rt: HostRuntime) -> Result<(), Fail> {
    for (type_, digits, text) in BODIES {
        shows_owned(rt.alloc(), type_, digits, text)?;
    }
    Ok(())
}

#[test]
fn borrowed_bodies(rt: HostRuntime) -> Result<(), Fail> {
    for (type_, digits, text) in BODIES {
        shows_borrowed(rt.alloc(), type_, digits, text)?;
    }
    Ok(())
}
