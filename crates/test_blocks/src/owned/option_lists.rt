//! Options by themselves, for each kind of block.

use crate::owned::rows::{HasTexts, Owned, compare_with_texts};
use crate::owned::texts::{
    enhanced_owns_text, interface_owns_text, name_owns_text, packet_owns_text, section_owns_text,
    statistics_own_text,
};
use byteorder::BigEndian;
use pcap_blocks::{
    EnhancedPacketOption, InterfaceDescriptionBlock, InterfaceDescriptionOption,
    InterfaceStatisticsBlock, InterfaceStatisticsOption, NameResolutionBlock, NameResolutionOption,
    PacketOption, SectionHeaderBlock, SectionHeaderOption,
};
use pcap_core::ResultParsing;
use std::alloc::Global;
use std::test::*;

// The options of a list. Each one makes itself owned.

impl Owned for Vec<SectionHeaderOption<'static>> {
    fn owned(alloc: Global, body: &[u8]) -> ResultParsing<Self> {
        let (_rest, block) = SectionHeaderBlock::from_slice(alloc, body)?;
        let mut options = Vec::new(alloc);
        for option in block.options {
            options.push(option.into_owned(alloc)?)?;
        }
        Ok(options)
    }
}

impl HasTexts for Vec<SectionHeaderOption<'static>> {
    fn owns_texts(&self) -> bool {
        self.iter().all(section_owns_text)
    }
}

impl Owned for Vec<InterfaceDescriptionOption<'static>> {
    fn owned(alloc: Global, body: &[u8]) -> ResultParsing<Self> {
        let (_rest, block) = InterfaceDescriptionBlock::from_slice::<BigEndian>(alloc, body)?;
        let mut options = Vec::new(alloc);
        for option in block.options {
            options.push(option.into_owned(alloc)?)?;
        }
        Ok(options)
    }
}

impl HasTexts for Vec<InterfaceDescriptionOption<'static>> {
    fn owns_texts(&self) -> bool {
        self.iter().all(interface_owns_text)
    }
}

impl Owned for Vec<EnhancedPacketOption<'static>> {
    fn owned(alloc: Global, body: &[u8]) -> ResultParsing<Self> {
        let (_rest, lent) = EnhancedPacketOption::from_slice::<BigEndian>(alloc, body)?;
        let mut options = Vec::new(alloc);
        for option in lent {
            options.push(option.into_owned(alloc)?)?;
        }
        Ok(options)
    }
}

impl HasTexts for Vec<EnhancedPacketOption<'static>> {
    fn owns_texts(&self) -> bool {
        self.iter().all(enhanced_owns_text)
    }
}

impl Owned for Vec<PacketOption<'static>> {
    fn owned(alloc: Global, body: &[u8]) -> ResultParsing<Self> {
        let (_rest, lent) = PacketOption::from_slice::<BigEndian>(alloc, body)?;
        let mut options = Vec::new(alloc);
        for option in lent {
            options.push(option.into_owned(alloc)?)?;
        }
        Ok(options)
    }
}

impl HasTexts for Vec<PacketOption<'static>> {
    fn owns_texts(&self) -> bool {
        self.iter().all(packet_owns_text)
    }
}

impl Owned for Vec<InterfaceStatisticsOption<'static>> {
    fn owned(alloc: Global, body: &[u8]) -> ResultParsing<Self> {
        let (_rest, block) = InterfaceStatisticsBlock::from_slice::<BigEndian>(alloc, body)?;
        let mut options = Vec::new(alloc);
        for option in block.options {
            options.push(option.into_owned(alloc)?)?;
        }
        Ok(options)
    }
}

impl HasTexts for Vec<InterfaceStatisticsOption<'static>> {
    fn owns_texts(&self) -> bool {
        self.iter().all(statistics_own_text)
    }
}

impl Owned for Vec<NameResolutionOption<'static>> {
    fn owned(alloc: Global, body: &[u8]) -> ResultParsing<Self> {
        let (_rest, block) = NameResolutionBlock::from_slice::<BigEndian>(alloc, body)?;
        let mut options = Vec::new(alloc);
        for option in block.options {
            options.push(option.into_owned(alloc)?)?;
        }
        Ok(options)
    }
}

impl HasTexts for Vec<NameResolutionOption<'static>> {
    fn owns_texts(&self) -> bool {
        self.iter().all(name_owns_text)
    }
}

const OF_SECTION: [(&str, &str); 5] = [
    (
        "0002 0003 783836 00 0003 0005 4c696e7578 000000 0000 0000",
        r#"[Hardware("x86"), OS("Linux")]"#,
    ),
    (
        "0001 0002 6869 0000 0004 0001 61 000000",
        r#"[Comment("hi"), UserApplication("a")]"#,
    ),
    (
        "0bac 0006 00007ed9 6869 0000",
        r#"[CustomUtf8(CustomUtf8Option { code: 2988, pen: 32473, value: "hi" })]"#,
    ),
    (
        "0bad 0005 00007ed9 ff 000000",
        "[CustomBinary(CustomBinaryOption { code: 2989, pen: 32473, value: Owned([255]) })]",
    ),
    (
        "0063 0002 aabb ffff",
        "[Unknown(UnknownOption { code: 99, length: 2, value: Owned([170, 187]) })]",
    ),
];

const OF_INTERFACE: [(&str, &str); 10] = [
    (
        "0bac 0006 00007ed9 6869 0000 0063 0002 aabb ffff 0000 0000",
        r#"[CustomUtf8(CustomUtf8Option { code: 2988, pen: 32473, value: "hi" }), Unknown(UnknownOption { code: 99, length: 2, value: Owned([170, 187]) })]"#,
    ),
    (
        "0bad 0005 00007ed9 ff 000000",
        "[CustomBinary(CustomBinaryOption { code: 2989, pen: 32473, value: Owned([255]) })]",
    ),
    (
        "0001 0002 6869 0000 0002 0004 65746830 0003 0001 61 000000",
        r#"[Comment("hi"), IfName("eth0"), IfDescription("a")]"#,
    ),
    (
        "000c 0005 4c696e7578 000000 000f 0003 783836 00",
        r#"[IfOs("Linux"), IfHardware("x86")]"#,
    ),
    (
        "0004 0008 0a000001ff000000",
        "[IfIpv4Addr(Owned([10, 0, 0, 1, 255, 0, 0, 0]))]",
    ),
    (
        "0005 0011 00000000000000000000000000000001 40 000000",
        "[IfIpv6Addr(Owned([0, 0, 0, 0, 0, 0, 0, 0, 0, 0, 0, 0, 0, 0, 0, 1, 64]))]",
    ),
    (
        "0006 0006 000102030405 0000",
        "[IfMacAddr(Owned([0, 1, 2, 3, 4, 5]))]",
    ),
    (
        "0007 0008 0000000000000007 0008 0008 0000000000000008",
        "[IfEuIAddr(7), IfSpeed(8)]",
    ),
    (
        "0009 0001 06 000000 000a 0004 00000e10 000b 0001 2a 000000",
        "[IfTsResol(6), IfTzone(3600), IfFilter(Owned([42]))]",
    ),
    (
        "000d 0001 04 000000 000e 0008 0000000000000001",
        "[IfFcsLen(4), IfTsOffset(1)]",
    ),
];

const OF_ENHANCED_PACKET: [(&str, &str); 6] = [
    ("0001 0002 6869 0000 0000 0000", r#"[Comment("hi")]"#),
    ("0004 0008 0000000000000007 0000 0000", "[DropCount(7)]"),
    (
        "0002 0004 00000003 0003 0002 02ff 0000",
        "[Flags(3), Hash(Owned([2, 255]))]",
    ),
    (
        "0bac 0006 00007ed9 6869 0000",
        r#"[CustomUtf8(CustomUtf8Option { code: 2988, pen: 32473, value: "hi" })]"#,
    ),
    (
        "0bad 0005 00007ed9 ff 000000",
        "[CustomBinary(CustomBinaryOption { code: 2989, pen: 32473, value: Owned([255]) })]",
    ),
    (
        "0063 0002 aabb ffff",
        "[Unknown(UnknownOption { code: 99, length: 2, value: Owned([170, 187]) })]",
    ),
];

const OF_PACKET: [(&str, &str); 4] = [
    (
        "0001 0002 6869 0000 0bad 0005 00007ed9 ff 000000 0000 0000",
        r#"[Comment("hi"), CustomBinary(CustomBinaryOption { code: 2989, pen: 32473, value: Owned([255]) })]"#,
    ),
    (
        "0002 0004 00000003 0003 0002 02ff 0000",
        "[Flags(3), Hash(Owned([2, 255]))]",
    ),
    (
        "0bac 0006 00007ed9 6869 0000",
        r#"[CustomUtf8(CustomUtf8Option { code: 2988, pen: 32473, value: "hi" })]"#,
    ),
    (
        "0063 0002 aabb ffff",
        "[Unknown(UnknownOption { code: 99, length: 2, value: Owned([170, 187]) })]",
    ),
];

const OF_STATISTICS: [(&str, &str); 7] = [
    (
        "0002 0009 00000001 00000002 ff 000000 0000 0000",
        "[IsbStartTime(4294967298)]",
    ),
    (
        "0001 0002 6869 0000 0003 0008 00000001 00000002",
        r#"[Comment("hi"), IsbEndTime(4294967298)]"#,
    ),
    (
        "0004 0008 0000000000000004 0005 0008 0000000000000005",
        "[IsbIfRecv(4), IsbIfDrop(5)]",
    ),
    (
        "0006 0008 0000000000000006 0007 0008 0000000000000007 0008 0008 0000000000000008",
        "[IsbFilterAccept(6), IsbOsDrop(7), IsbUsrDeliv(8)]",
    ),
    (
        "0bac 0006 00007ed9 6869 0000",
        r#"[CustomUtf8(CustomUtf8Option { code: 2988, pen: 32473, value: "hi" })]"#,
    ),
    (
        "0bad 0005 00007ed9 ff 000000",
        "[CustomBinary(CustomBinaryOption { code: 2989, pen: 32473, value: Owned([255]) })]",
    ),
    (
        "0063 0002 aabb ffff",
        "[Unknown(UnknownOption { code: 99, length: 2, value: Owned([170, 187]) })]",
    ),
];

const OF_NAMES: [(&str, &str); 6] = [
    (
        "0003 0004 08080808 0000 0000",
        "[NsDnsIpv4Addr(Owned([8, 8, 8, 8]))]",
    ),
    (
        "0001 0002 6869 0000 0002 0001 61 000000",
        r#"[Comment("hi"), NsDnsName("a")]"#,
    ),
    (
        "0004 0010 00000000000000000000000000000001",
        "[NsDnsIpv6Addr(Owned([0, 0, 0, 0, 0, 0, 0, 0, 0, 0, 0, 0, 0, 0, 0, 1]))]",
    ),
    (
        "0bac 0006 00007ed9 6869 0000",
        r#"[CustomUtf8(CustomUtf8Option { code: 2988, pen: 32473, value: "hi" })]"#,
    ),
    (
        "0bad 0005 00007ed9 ff 000000",
        "[CustomBinary(CustomBinaryOption { code: 2989, pen: 32473, value: Owned([255]) })]",
    ),
    (
        "0063 0002 aabb ffff",
        "[Unknown(UnknownOption { code: 99, length: 2, value: Owned([170, 187]) })]",
    ),
];

#[test]
fn options_of_sections_and_interfaces(rt: HostRuntime) -> Result<(), Fail> {
    compare_with_texts::<Vec<SectionHeaderOption>>(
        rt.alloc(),
        "1a2b3c4d 0001 0000 0000000000000010",
        &OF_SECTION,
    )?;
    compare_with_texts::<Vec<InterfaceDescriptionOption>>(
        rt.alloc(),
        "0001 0000 00040000",
        &OF_INTERFACE,
    )?;
    compare_with_texts::<Vec<InterfaceStatisticsOption>>(
        rt.alloc(),
        "00000001 00000002 00000003",
        &OF_STATISTICS,
    )
}

#[test]
fn options_of_packets_and_names(rt: HostRuntime) -> Result<(), Fail> {
    compare_with_texts::<Vec<EnhancedPacketOption>>(rt.alloc(), "", &OF_ENHANCED_PACKET)?;
    compare_with_texts::<Vec<PacketOption>>(rt.alloc(), "", &OF_PACKET)?;
    compare_with_texts::<Vec<NameResolutionOption>>(rt.alloc(), "0000 0000", &OF_NAMES)
}
