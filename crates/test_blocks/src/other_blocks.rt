//! Statistics, journal entries, unknown blocks and block types.

use crate::rows::{Calls, every_call, no_call, whole_list};
use byteorder::{BigEndian, LittleEndian};
use pcap_blocks::{BlockType, InterfaceStatisticsBlock, SystemdJournalExportBlock, UnknownBlock};
use std::alloc::Global;
use std::test::*;
use test_support::rows::{bytes, told};

// Blocks of these kinds, parsed from bytes or made of them.
struct OtherBlocks;

impl Calls for OtherBlocks {
    fn result(alloc: Global, name: &str, digits: &str) -> Result<String, Fail> {
        let bytes = bytes(alloc, digits)?;
        let body = bytes.as_slice();
        match name {
            "statistics" => told(
                alloc,
                InterfaceStatisticsBlock::from_slice::<BigEndian>(alloc, body),
            ),
            "little_statistics" => told(
                alloc,
                InterfaceStatisticsBlock::from_slice::<LittleEndian>(alloc, body),
            ),
            "journal" => told(
                alloc,
                SystemdJournalExportBlock::from_slice::<BigEndian>(body),
            ),
            "unknown" => {
                let block = UnknownBlock::new(BlockType::Unknown(77), 5, body);
                Ok(format!(in alloc; "{block:?}")?)
            }
            _ => Err(no_call(name)),
        }
    }
}

#[test]
fn each_option_of_statistics(rt: HostRuntime) -> Result<(), Fail> {
    let row =
        "statistics 00000001 00000002 00000003 .. => [] InterfaceStatisticsBlock { interface_id: 1, timestamp: 8589934595, options: [..] }";
    let table = r#"
        0001 0001 61 000000 => Comment("a")
        0002 0008 00000001 00000002 => IsbStartTime(4294967298)
        0003 0008 00000003 00000004 => IsbEndTime(12884901892)
        0004 0008 0000000100000005 => IsbIfRecv(4294967301)
        0005 0009 0000000000000006 ff 000000 => IsbIfDrop(6)
        0006 0008 0000000000000007 => IsbFilterAccept(7)
        0007 0008 0000000000000008 => IsbOsDrop(8)
        0008 0008 0000000000000009 => IsbUsrDeliv(9)
        0bac 0004 00000001 => CustomUtf8(CustomUtf8Option { code: 2988, pen: 1, value: "" })
        0bad 0004 00000002 => CustomBinary(CustomBinaryOption { code: 2989, pen: 2, value: Borrowed([]) })
        4bac 0004 00000003 => CustomUtf8(CustomUtf8Option { code: 19372, pen: 3, value: "" })
        4bad 0005 00000004 aa 000000 => CustomBinary(CustomBinaryOption { code: 19373, pen: 4, value: Borrowed([170]) })
        0009 0000 => Unknown(UnknownOption { code: 9, length: 0, value: Borrowed([]) })
    "#;
    whole_list::<OtherBlocks>(rt.alloc(), row, table)
}

#[test]
fn other_blocks(rt: HostRuntime) -> Result<(), Fail> {
    let table = "
        little_statistics 01000000 02000000 03000000 0200 0900 01000000 02000000 ff 000000 0000 0000 => [] InterfaceStatisticsBlock { interface_id: 1, timestamp: 8589934595, options: [IsbStartTime(4294967298)] }
        little_statistics 01000000 02000000 03000000 0400 0400 01000000 0000 0000 => IoError
        little_statistics 01000000 02000000 03000000 0300 0700 01000000 020000 00 => IoError
        little_statistics 0100000002000000030000 => InterfaceStatisticsBlock: block length < 12
        journal 5f3d0a => [] SystemdJournalExportBlock { journal_entry: Borrowed([95, 61, 10]) }
        unknown 5f3d0a => UnknownBlock { type_: Unknown(77), length: 5, value: Borrowed([95, 61, 10]) }
    ";
    every_call::<OtherBlocks>(rt.alloc(), table)
}

// Types of blocks by their numbers.
struct Types;

impl Calls for Types {
    fn result(alloc: Global, _name: &str, number: &str) -> Result<String, Fail> {
        let type_ = BlockType::from(u32::from_str_radix(number, 16)?);
        Ok(format!(in alloc; "{type_:?}")?)
    }
}

#[test]
fn types_of_blocks(rt: HostRuntime) -> Result<(), Fail> {
    let table = "
        type 0a0d0d0a => SectionHeader
        type 1 => InterfaceDescription
        type 2 => Packet
        type 3 => SimplePacket
        type 4 => NameResolution
        type 5 => InterfaceStatistics
        type 6 => EnhancedPacket
        type 9 => SystemdJournalExport
        type 0 => Unknown(0)
        type 7 => Unknown(7)
        type 0a0d0d0b => Unknown(168627467)
    ";
    every_call::<Types>(rt.alloc(), table)
}
