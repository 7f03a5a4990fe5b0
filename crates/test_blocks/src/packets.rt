//! Packets of all kinds.

use crate::rows::{Calls, every_call, no_call, whole_list};
use byteorder::{BigEndian, LittleEndian};
use pcap_blocks::{
    EnhancedPacketBlock, EnhancedPacketOption, PacketBlock, PacketOption, SimplePacketBlock,
};
use std::alloc::Global;
use std::test::*;
use test_support::rows::{bytes, told};

// Parses bytes as what a row names: the body of a packet, or a list of its options.
struct Packets;

impl Calls for Packets {
    fn result(alloc: Global, name: &str, digits: &str) -> Result<String, Fail> {
        let bytes = bytes(alloc, digits)?;
        let body = bytes.as_slice();
        match name {
            "enhanced" => told(
                alloc,
                EnhancedPacketBlock::from_slice::<BigEndian>(alloc, body),
            ),
            "little_enhanced" => told(
                alloc,
                EnhancedPacketBlock::from_slice::<LittleEndian>(alloc, body),
            ),
            "enhanced_options" => told(
                alloc,
                EnhancedPacketOption::from_slice::<BigEndian>(alloc, body),
            ),
            "packet_options" => told(alloc, PacketOption::from_slice::<BigEndian>(alloc, body)),
            "packet" => told(alloc, PacketBlock::from_slice::<BigEndian>(alloc, body)),
            "little_packet" => told(alloc, PacketBlock::from_slice::<LittleEndian>(alloc, body)),
            "simple" => told(alloc, SimplePacketBlock::from_slice::<BigEndian>(body)),
            _ => Err(no_call(name)),
        }
    }
}

const PACKETS: &str = r#"
    enhanced 00000000 00000001 00000002 00000003 00000005 616263 ff 0004 0008 0000000000000007 0000 0000 => [] EnhancedPacketBlock { interface_id: 0, timestamp: 4294967298, captured_len: 3, original_len: 5, data_: Borrowed([97, 98, 99]), options: [DropCount(7)] }
    enhanced 00000000 00000000 00000000 00000005 00000005 61626364 => EnhancedPacketBlock: captured_len + padding > block length
    enhanced 00000000 00000000 00000000 fffffffd fffffffd 61626364 => EnhancedPacketBlock: captured_len + padding > block length
    enhanced 00000000000000000000000000000000000000 => EnhancedPacketBlock: block length length < 20
    enhanced 00000000 00000000 00000000 00000000 00000000 0002 0002 0000 0000 => EnhancedPacketOption: Flags length != 4
    enhanced 00000000 00000000 00000000 00000000 00000000 0004 0004 00000000 => EnhancedPacketOption: DropCount length != 8
    little_enhanced 00000000 01000000 02000000 00000000 00000000 => [] EnhancedPacketBlock { interface_id: 0, timestamp: 4294967298, captured_len: 0, original_len: 0, data_: Borrowed([]), options: [] }
    enhanced_options 0001 0002 6869 0000 0000 0000 => [] [Comment("hi")]
    enhanced_options 0001 0002 6869 0000 => [] [Comment("hi")]
    enhanced_options 0000 0005 aabb => [170, 187] []
    enhanced_options => [] []
    enhanced_options 0001 0002 6869 0000 00 => Option: slice.len() < 4
    enhanced_options 0001 0002 6869 => Option: length + pad.len() > slice.len()
    enhanced_options 0bac 0003 616263 00 00000000 => IoError
    enhanced_options 0001 0001 ff 000000 00000000 => Utf8Error
    packet 0000 0000 00000000 00000000 00000005 00000005 61626364 => EnhancedPacketBlock: captured_len + padding > block length
    packet 00000000000000000000000000000000000000 => EnhancedPacketBlock: block length length < 20
    packet 0000 0000 00000000 00000000 00000000 00000000 0002 0000 => PacketOption: Flags length != 4
    little_packet 0100 0200 00000000 05000000 00000000 00000000 => [] PacketBlock { interface_id: 1, drop_count: 2, timestamp: 5, captured_len: 0, original_len: 0, data_: Borrowed([]), options: [] }
    little_packet 0000 0000 00000000 00000000 00000000 00000000 => [] PacketBlock { interface_id: 0, drop_count: 0, timestamp: 0, captured_len: 0, original_len: 0, data_: Borrowed([]), options: [] }
    simple 00000001 61000000 => [] SimplePacketBlock { original_len: 1, data_: Borrowed([97, 0, 0, 0]) }
    simple 000001 => SimplePacketBlock: block length < 4
"#;

#[test]
fn packets_and_lists_of_options(rt: HostRuntime) -> Result<(), Fail> {
    every_call::<Packets>(rt.alloc(), PACKETS)
}

#[test]
fn each_option_of_packets(rt: HostRuntime) -> Result<(), Fail> {
    let table = r#"
        0001 0002 6869 0000 => Comment("hi")
        0002 0004 00000001 => Flags(1)
        0003 0002 02ff 0000 => Hash(Borrowed([2, 255]))
        0004 0008 0000000000000007 => DropCount(7)
        0bac 0004 00000001 => CustomUtf8(CustomUtf8Option { code: 2988, pen: 1, value: "" })
        0bad 0004 00000002 => CustomBinary(CustomBinaryOption { code: 2989, pen: 2, value: Borrowed([]) })
        4bac 0004 00000003 => CustomUtf8(CustomUtf8Option { code: 19372, pen: 3, value: "" })
        4bad 0005 00000004 aa 000000 => CustomBinary(CustomBinaryOption { code: 19373, pen: 4, value: Borrowed([170]) })
        0005 0000 => Unknown(UnknownOption { code: 5, length: 0, value: Borrowed([]) })
    "#;
    whole_list::<Packets>(rt.alloc(), "enhanced_options .. => [] [..]", table)?;
    let table = r#"
        0001 0002 6869 0000 => Comment("hi")
        0bad 0005 00007ed9 ff 000000 => CustomBinary(CustomBinaryOption { code: 2989, pen: 32473, value: Borrowed([255]) })
        0002 0004 00000003 => Flags(3)
        0003 0001 01 000000 => Hash(Borrowed([1]))
        4bac 0004 00000004 => CustomUtf8(CustomUtf8Option { code: 19372, pen: 4, value: "" })
        0bac 0006 00000005 6869 0000 => CustomUtf8(CustomUtf8Option { code: 2988, pen: 5, value: "hi" })
        4bad 0004 00000006 => CustomBinary(CustomBinaryOption { code: 19373, pen: 6, value: Borrowed([]) })
        0004 0000 => Unknown(UnknownOption { code: 4, length: 0, value: Borrowed([]) })
    "#;
    whole_list::<Packets>(rt.alloc(), "packet_options .. 0000 0000 => [] [..]", table)
}
