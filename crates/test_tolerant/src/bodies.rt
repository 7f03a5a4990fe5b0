//! Lenient reading of the bodies of blocks. The rows were written by hand, from the tables of the draft.

use crate::tables::every_call;
use byteorder::{BigEndian, ByteOrder, LittleEndian};
use pcap_raw_options::raw_options;
use pcap_tolerant_blocks::{
    EnhancedAsIs, InterfaceAsIs, InterfacesAsIs, NamesAsIs, PacketBlockAsIs, SectionAsIs,
    SimpleAsIs, StatisticsAsIs,
};
use std::alloc::{AllocError, Global};
use std::fmt::Debug;
use std::test::Fail;
use test_support::rows::{bytes, same, told_alone};

// Interfaces, and sections.
const INTERFACES: &str = r#"
    // before, between and after good ones: a comment that isn't UTF-8, a name, an address of 7 bytes, a resolution of nanoseconds, a
    // speed of 2 bytes, and the end mark
    interface big: 0001 0000 00040000 0001 0001 ff000000 0002 0001 61000000 0004 0007 0102030405060700 0009 0001 09000000 0008 0002 01020000 0000 0000 => 0 left, InterfaceAsIs { interface: Some(InterfaceDescriptionBlock { linktype: ETHERNET, reserved: 0, snaplen: 262144, options: [Unknown(UnknownOption { code: 1, length: 1, value: Borrowed([255]) }), IfName("a"), Unknown(UnknownOption { code: 4, length: 7, value: Borrowed([1, 2, 3, 4, 5, 6, 7]) }), IfTsResol(9), Unknown(UnknownOption { code: 8, length: 2, value: Borrowed([1, 2]) })] }), flaws: [Flaw { code: Some(1), broken: NotUtf8 }, Flaw { code: Some(4), broken: Rule(InterfaceIpv4Length) }, Flaw { code: Some(8), broken: Rule(InterfaceSpeedLength) }] }
    // a custom option that is too short, and then one whose bytes pass the end
    interface big: 0065 0000 00000000 0bac 0002 01020000 0009 0005 09000000 => 8 left, InterfaceAsIs { interface: Some(InterfaceDescriptionBlock { linktype: RAW, reserved: 0, snaplen: 0, options: [Unknown(UnknownOption { code: 2988, length: 2, value: Borrowed([1, 2]) })] }), flaws: [Flaw { code: Some(2988), broken: TooShort }, Flaw { code: None, broken: Rule(OptionCut) }] }
    interface big: 0001 0000 => 4 left, InterfaceAsIs { interface: None, flaws: [Flaw { code: None, broken: Rule(InterfaceTooShort) }] }
    // an operating system that isn't UTF-8, and then an application
    section little: 4d3c2b1a 0100 0000 ffffffffffffffff 0300 0001 ff000000 0400 0100 61000000 => 16 left, SectionAsIs { section: SectionHeaderBlock { magic: 1295788826, major_version: 1, minor_version: 0, section_length: -1, options: [] }, flaws: [Flaw { code: None, broken: Rule(OptionCut) }] }
    section little: 4d3c2b1a 0100 0000 ffffffffffffffff 0300 0100 ff000000 0400 0100 61000000 => 0 left, SectionAsIs { section: SectionHeaderBlock { magic: 1295788826, major_version: 1, minor_version: 0, section_length: -1, options: [Unknown(UnknownOption { code: 3, length: 1, value: Borrowed([255]) }), UserApplication("a")] }, flaws: [Flaw { code: Some(3), broken: NotUtf8 }] }
"#;

// Enhanced packets, obsolete packets and simple packets.
const PACKETS: &str = r#"
    // flags of 2 bytes, and then a count of lost packets
    enhanced little: 01000000 02000000 03000000 03000000 04000000 aabbcc00 0200 0200 01020000 0400 0800 0500000000000000 => 0 left, EnhancedAsIs { packet: Some(EnhancedPacketBlock { interface_id: 1, timestamp: 8589934595, captured_len: 3, original_len: 4, data_: Borrowed([170, 187, 204]), options: [Unknown(UnknownOption { code: 2, length: 2, value: Borrowed([1, 2]) }), DropCount(5)] }), flaws: [Flaw { code: Some(2), broken: Rule(EnhancedFlagsLength) }] }
    enhanced little: 01000000 02000000 03000000 05000000 04000000 aabbcc00 => 24 left, EnhancedAsIs { packet: None, flaws: [Flaw { code: None, broken: Rule(EnhancedCut) }] }
    enhanced little: 01000000 => 4 left, EnhancedAsIs { packet: None, flaws: [Flaw { code: None, broken: Rule(EnhancedTooShort) }] }
    // flags of 2 bytes before a comment, and a comment after it that isn't UTF-8
    packet little: 0100 0200 02000000 03000000 03000000 04000000 aabbcc00 0100 0100 ff000000 0200 0200 01020000 0100 0100 61000000 => 0 left, PacketBlockAsIs { packet: Some(PacketBlock { interface_id: 1, drop_count: 2, timestamp: 8589934595, captured_len: 3, original_len: 4, data_: Borrowed([170, 187, 204]), options: [Unknown(UnknownOption { code: 1, length: 1, value: Borrowed([255]) }), Unknown(UnknownOption { code: 2, length: 2, value: Borrowed([1, 2]) }), Comment("a")] }), flaws: [Flaw { code: Some(1), broken: NotUtf8 }, Flaw { code: Some(2), broken: Rule(PacketFlagsLength) }] }
    packet little: 0100 ffff 00000000 00000000 00000000 00000000 0200 0400 01000000 0000 0000 => 0 left, PacketBlockAsIs { packet: Some(PacketBlock { interface_id: 1, drop_count: 65535, timestamp: 0, captured_len: 0, original_len: 0, data_: Borrowed([]), options: [Flags(1)] }), flaws: [] }
    packet little: 0100 0200 02000000 03000000 05000000 04000000 aabbcc00 => 24 left, PacketBlockAsIs { packet: None, flaws: [Flaw { code: None, broken: Rule(EnhancedCut) }] }
    packet little: 0100 0200 02000000 03000000 05000000 040000 => 19 left, PacketBlockAsIs { packet: None, flaws: [Flaw { code: None, broken: Rule(EnhancedTooShort) }] }
    simple big: 00000005 aabbcc00 => 0 left, SimpleAsIs { packet: Some(SimplePacketBlock { original_len: 5, data_: Borrowed([170, 187, 204, 0]) }), flaws: [] }
    simple big: 00000000 => 0 left, SimpleAsIs { packet: Some(SimplePacketBlock { original_len: 0, data_: Borrowed([]) }), flaws: [] }
    simple big: 000000 => 3 left, SimpleAsIs { packet: None, flaws: [Flaw { code: None, broken: Rule(SimpleTooShort) }] }
"#;

// Statistics of interfaces.
const STATISTICS: &str = r#"
    // a start of 4 bytes, then receipts of 9, of which the last byte is ignored, and drops without a value
    statistics big: 00000001 00000002 00000003 0002 0004 00000001 0004 0009 000000000000000701000000 0005 0000 0000 0000 => 0 left, StatisticsAsIs { statistics: Some(InterfaceStatisticsBlock { interface_id: 1, timestamp: 8589934595, options: [Unknown(UnknownOption { code: 2, length: 4, value: Borrowed([0, 0, 0, 1]) }), IsbIfRecv(7), Unknown(UnknownOption { code: 5, length: 0, value: Borrowed([]) })] }), flaws: [Flaw { code: Some(2), broken: TooShort }, Flaw { code: Some(5), broken: TooShort }] }
    // an end mark, and then a truncated option
    statistics big: 00000001 00000002 00000003 0003 0008 0000000200000004 0001 0005 61 => 5 left, StatisticsAsIs { statistics: Some(InterfaceStatisticsBlock { interface_id: 1, timestamp: 8589934595, options: [IsbEndTime(8589934596)] }), flaws: [Flaw { code: None, broken: Rule(OptionCut) }] }
    statistics big: 00000001 00000002 000000 => 11 left, StatisticsAsIs { statistics: None, flaws: [Flaw { code: None, broken: Rule(StatisticsTooShort) }] }
"#;

// Name resolution blocks: those that end, and those that are torn.
const NAMES: &str = r#"
    // an address without a name, one with a name, one whose name has no zero byte, an unknown type, a name that isn't UTF-8; an end with
    // a value, a name of the server, and its address of 3 bytes
    names big: 0001 0004 7f000001 0001 0006 7f000001 61000000 0001 0006 7f000001 61620000 0007 0003 01020300 0001 0006 7f000001 ff000000 0000 0004 01020304 0002 0001 6e000000 0003 0003 01020300 0000 0000 => 0 left, NamesAsIs { names: NameResolutionBlock { records: [Unknown(UnknownRecord { type_: 1, length: 4, value: Borrowed([127, 0, 0, 1]) }), Ipv4(Ipv4Record { ip_addr: Borrowed([127, 0, 0, 1]), names: ["a"] }), Unknown(UnknownRecord { type_: 1, length: 6, value: Borrowed([127, 0, 0, 1, 97, 98]) }), Unknown(UnknownRecord { type_: 7, length: 3, value: Borrowed([1, 2, 3]) }), Unknown(UnknownRecord { type_: 1, length: 6, value: Borrowed([127, 0, 0, 1, 255, 0]) })], options: [NsDnsName("n"), Unknown(UnknownOption { code: 3, length: 3, value: Borrowed([1, 2, 3]) })] }, flaws: [Flaw { code: None, broken: Rule(Ipv4RecordTooShort) }, Flaw { code: None, broken: Rule(NameUnended) }, Flaw { code: None, broken: NotUtf8 }, Flaw { code: None, broken: Rule(EndNotEmpty) }, Flaw { code: Some(3), broken: Rule(NameIpv4Length) }] }
    // no flaw, and no records
    names big: 0000 0000 => 0 left, NamesAsIs { names: NameResolutionBlock { records: [], options: [] }, flaws: [] }
    // a truncated list of options
    names big: 0000 0000 0001 0005 61 => 5 left, NamesAsIs { names: NameResolutionBlock { records: [], options: [] }, flaws: [Flaw { code: None, broken: Rule(OptionCut) }] }
    // after a flawed record, one with a name whose padding is missing
    names little: 0200 0400 00000001 0100 0600 7f000001 6100 => 10 left, NamesAsIs { names: NameResolutionBlock { records: [Unknown(UnknownRecord { type_: 2, length: 4, value: Borrowed([0, 0, 0, 1]) })], options: [] }, flaws: [Flaw { code: None, broken: Rule(Ipv6RecordTooShort) }, Flaw { code: None, broken: Rule(RecordUnpadded) }] }
    // the same for a name that isn't UTF-8, and for an end with a value
    names little: 0100 0600 7f000001 ff00 => 10 left, NamesAsIs { names: NameResolutionBlock { records: [], options: [] }, flaws: [Flaw { code: None, broken: NotUtf8 }] }
    names little: 0000 0100 01 => 5 left, NamesAsIs { names: NameResolutionBlock { records: [], options: [] }, flaws: [Flaw { code: None, broken: Rule(EndNotEmpty) }] }
    // a value that passes the end, 3 bytes, and no end
    names little: 0100 ff00 7f => 5 left, NamesAsIs { names: NameResolutionBlock { records: [], options: [] }, flaws: [Flaw { code: None, broken: Rule(RecordCut) }] }
    names little: 0000 00 => 3 left, NamesAsIs { names: NameResolutionBlock { records: [], options: [] }, flaws: [Flaw { code: None, broken: TooShort }] }
    names little: 0700 0000 => 0 left, NamesAsIs { names: NameResolutionBlock { records: [Unknown(UnknownRecord { type_: 7, length: 0, value: Borrowed([]) })], options: [] }, flaws: [Flaw { code: None, broken: TooShort }] }
"#;

// Lists of options: values that are bad, and then flaws of the list.
const OPTIONS: &str = r#"
    // a comment that isn't UTF-8, an address of 7 bytes, and then a resolution and the end mark
    options big: 0001 0001 ff000000 0004 0007 0102030405060700 0009 0001 09000000 0000 0000 abcd => RawOptions { options: [UnknownOption { code: 1, length: 1, value: Borrowed([255]) }, UnknownOption { code: 4, length: 7, value: Borrowed([1, 2, 3, 4, 5, 6, 7]) }, UnknownOption { code: 9, length: 1, value: Borrowed([9]) }], flaw: None, left: [171, 205] }
    // the same resolution without the end mark, with an empty option before it
    options big: 0002 0000 0009 0001 09ffffff => RawOptions { options: [UnknownOption { code: 2, length: 0, value: Borrowed([]) }, UnknownOption { code: 9, length: 1, value: Borrowed([9]) }], flaw: None, left: [] }
    // a custom option that is too short for its enterprise number
    options big: 0bac 0002 01020000 0000 0000 => RawOptions { options: [UnknownOption { code: 2988, length: 2, value: Borrowed([1, 2]) }], flaw: None, left: [] }
    options big: => RawOptions { options: [], flaw: None, left: [] }
    // the length of the end mark is ignored
    options big: 0000 0004 01020304 => RawOptions { options: [], flaw: None, left: [1, 2, 3, 4] }
    options little: 0100 0100 61000000 010000 => RawOptions { options: [UnknownOption { code: 1, length: 1, value: Borrowed([97]) }], flaw: Some(OptionTooShort), left: [1, 0, 0] }
    options little: 00 => RawOptions { options: [], flaw: Some(OptionTooShort), left: [0] }
    // the value is there, but its padding is missing
    options little: 0900 0100 09000000 0100 0100 610000 => RawOptions { options: [UnknownOption { code: 9, length: 1, value: Borrowed([9]) }], flaw: Some(OptionCut), left: [1, 0, 1, 0, 97, 0, 0] }
    options little: 0100 ffff 61000000 => RawOptions { options: [], flaw: Some(OptionCut), left: [1, 0, 255, 255, 97, 0, 0, 0] }
"#;

// Formats the result of parsing a body: how many bytes are left, and the value with its flaws.
fn told<T: Debug + Drop>(
    alloc: Global,
    read: Result<(&[u8], T), AllocError>,
) -> Result<String, Fail> {
    let (rest, value) = read?;
    let left = rest.len();
    Ok(format!(in alloc; "{left} left, {value:?}")?)
}

// Formats the result of parsing a section.
fn told_section(alloc: Global, given: &[u8]) -> Result<String, Fail> {
    let read = SectionAsIs::from_slice(alloc, given)?;
    told(alloc, Ok(read))
}

// Formats the result of parsing a body of this kind, or a list of options.
fn body<B: ByteOrder>(alloc: Global, kind: &str, given: &[u8]) -> Result<String, Fail> {
    match kind {
        "section" => told_section(alloc, given),
        "interface" => told(alloc, InterfaceAsIs::from_slice::<B>(alloc, given)),
        "enhanced" => told(alloc, EnhancedAsIs::from_slice::<B>(alloc, given)),
        "packet" => told(alloc, PacketBlockAsIs::from_slice::<B>(alloc, given)),
        "simple" => told(alloc, SimpleAsIs::from_slice::<B>(alloc, given)),
        "statistics" => told(alloc, StatisticsAsIs::from_slice::<B>(alloc, given)),
        "names" => told(alloc, NamesAsIs::from_slice::<B>(alloc, given)),
        "options" => told_alone(alloc, Ok(raw_options::<B>(alloc, given)?)),
        _ => Err("an unknown kind")?,
    }
}

// Does the same in the byte order that the words of a row name after the kind.
fn body_in_order(alloc: Global, words: &str, given: &[u8]) -> Result<String, Fail> {
    match words.split_once(' ') {
        Some((kind, "big")) => body::<BigEndian>(alloc, kind, given),
        Some((kind, "little")) => body::<LittleEndian>(alloc, kind, given),
        _ => Err("a row without a byte order")?,
    }
}

#[test]
fn bodies(rt: HostRuntime) -> Result<(), Fail> {
    for table in [INTERFACES, PACKETS, STATISTICS, NAMES, OPTIONS] {
        every_call(rt.alloc(), table, body_in_order)?;
    }
    Ok(())
}

// Bodies of interfaces: nanoseconds after a comment that isn't UTF-8; a resolution of 4 bytes; one of 2 bytes, which is ignored; an offset
// of an hour.
const CLOCKS: &str = "0001 0000 00000000  0001 0001 ff000000  0009 0001 09000000
0001 0000
0001 0000 00000000  0009 0002 09090000
0001 0000 00000000  000e 0007 00000000000e1000  0009 0001 09000000  000e 0008 0000000000000e10";

const TIMES: &str =
    "Some(Timestamp { seconds: 1700000000, nanoseconds: 123456789 }); None; Some(Timestamp { seconds: 1700000000123, nanoseconds: 456789000 }); Some(Timestamp { seconds: 1700003600, nanoseconds: 123456789 }); ";

// Formats the time of `units` units by the clock of each interface with these bodies.
fn told_times(alloc: Global, bodies: &str, units: u64) -> Result<String, Fail> {
    let mut interfaces = InterfacesAsIs::new(alloc);
    let mut times = String::new(alloc);
    for (number, digits) in (0..u32::MAX).zip(bodies.lines()) {
        let body = bytes(alloc, digits)?;
        let _flaws = interfaces.add::<BigEndian>(alloc, body.as_slice())?;
        write!(times, "{:?}; ", interfaces.timestamp(number, units))?;
    }
    Ok(times)
}

#[test]
fn numbers_and_clocks(rt: HostRuntime) -> Result<(), Fail> {
    let times = told_times(rt.alloc(), CLOCKS, 1_700_000_000_123_456_789)?;
    same(times.as_str(), TIMES)
}
