//! Bodies, parsed by the type of their block.

use crate::rows::{Calls, block_type, every_call};
use byteorder::{BigEndian, LittleEndian};
use pcap_blocks::ParsedBlock;
use std::alloc::Global;
use std::test::*;
use test_support::rows::{bytes, told};

// Bodies, parsed in a block of the type that a row names.
struct Bodies;

impl Calls for Bodies {
    fn result(alloc: Global, name: &str, digits: &str) -> Result<String, Fail> {
        let body = bytes(alloc, digits)?;
        let type_ = block_type(name)?;
        told(
            alloc,
            ParsedBlock::from_slice::<BigEndian>(alloc, type_, body.as_slice()),
        )
    }
}

#[test]
fn bodies_by_type(rt: HostRuntime) -> Result<(), Fail> {
    let table = "
        1 aabb => [170, 187] Unknown(UnknownBlock { type_: Unknown(1), length: 2, value: Borrowed([170, 187]) })
        journal 01 => [] SystemdJournalExport(SystemdJournalExportBlock { journal_entry: Borrowed([1]) })
        simple 00000001 => [] SimplePacket(SimplePacketBlock { original_len: 1, data_: Borrowed([]) })
        section => SectionHeaderBlock: block length < 16
        interface => InterfaceDescriptionBlock: block length < 8
        packet => EnhancedPacketBlock: block length length < 20
        simple => SimplePacketBlock: block length < 4
        names => IoError
        statistics => InterfaceStatisticsBlock: block length < 12
        enhanced => EnhancedPacketBlock: block length length < 20
        journal => [] SystemdJournalExport(SystemdJournalExportBlock { journal_entry: Borrowed([]) })
        5 => [] Unknown(UnknownBlock { type_: Unknown(5), length: 0, value: Borrowed([]) })
    ";
    every_call::<Bodies>(rt.alloc(), table)
}

// The section that a body of a section or journal entry is, or the interface that another body is.
struct Contents;

impl Calls for Contents {
    fn result(alloc: Global, name: &str, digits: &str) -> Result<String, Fail> {
        let body = bytes(alloc, digits)?;
        let type_ = block_type(name)?;
        let (_rest, block) = ParsedBlock::from_slice::<LittleEndian>(
            alloc,
            type_,
            body.as_slice(),
        )?;
        match name {
            "section" | "journal" => Ok(format!(in alloc; "{:?}", block.into_section_header())?),
            _ => Ok(format!(in alloc; "{:?}", block.into_interface_description())?),
        }
    }
}

#[test]
fn sections_and_interfaces_of_blocks(rt: HostRuntime) -> Result<(), Fail> {
    let table = "
        section 1a2b3c4d 0001 0000 0000000000000010 => Some(SectionHeaderBlock { magic: 439041101, major_version: 1, minor_version: 0, section_length: 16, options: [] })
        journal 01 => None
        interface 0100 0000 00000400 => Some(InterfaceDescriptionBlock { linktype: ETHERNET, reserved: 0, snaplen: 262144, options: [] })
        simple 01000000 => None
    ";
    every_call::<Contents>(rt.alloc(), table)
}
