//! Section headers.

use crate::rows::{Calls, every_call, whole_list};
use pcap_blocks::SectionHeaderBlock;
use pcap_core::Endianness;
use std::alloc::Global;
use std::test::*;
use test_support::rows::{bytes, told};

// Section headers, parsed from their bodies.
struct Section;

impl Calls for Section {
    fn result(alloc: Global, _name: &str, digits: &str) -> Result<String, Fail> {
        let body = bytes(alloc, digits)?;
        told(
            alloc,
            SectionHeaderBlock::from_slice(alloc, body.as_slice()),
        )
    }
}

#[test]
fn sections(rt: HostRuntime) -> Result<(), Fail> {
    let table = r#"
        section 1a2b3c4d 0001 0000 0000000000000010 0002 0003 783836 00 0003 0005 4c696e7578 000000 0000 0000 => [] SectionHeaderBlock { magic: 439041101, major_version: 1, minor_version: 0, section_length: 16, options: [Hardware("x86"), OS("Linux")] }
        section 4d3c2b1a 0100 0200 ffffffffffffffff 0000 0000 aabb => [170, 187] SectionHeaderBlock { magic: 1295788826, major_version: 1, minor_version: 2, section_length: -1, options: [] }
        section 1a2b3c4d 0001 0000 00000000000000 => SectionHeaderBlock: block length < 16
        section 000000000000000000000000000000 => SectionHeaderBlock: block length < 16
        section 00000000000000000000000000000000 => SectionHeaderBlock: invalid magic number
        section 1a2b3c4d 0001 0000 0000000000000010 00 => Option: slice.len() < 4
        section 1a2b3c4d 0001 0000 0000000000000010 0001 00 => Option: slice.len() < 4
        section 1a2b3c4d 0001 0000 0000000000000010 0001 0002 6869 => Option: length + pad.len() > slice.len()
        section 1a2b3c4d 0001 0000 0000000000000010 0001 0002 6869 0000 00 => Option: slice.len() < 4
        section 1a2b3c4d 0001 0000 0000000000000010 0004 0001 ff 000000 => Utf8Error
        section 1a2b3c4d 0001 0000 0000000000000010 0bad 0003 ffffff 00 => IoError
        section 4d3c2b1a 0100 0000 1000000000000000 ac0b 0500 00000000 ff 000000 => Utf8Error
    "#;
    every_call::<Section>(rt.alloc(), table)
}

// Returns whether the section with these bytes has a valid magic number, with this byte order.
fn has_order(alloc: Global, body: &[u8], order: Endianness) -> bool {
    match &SectionHeaderBlock::from_slice(alloc, body) {
        Ok((_, section)) => section.has_valid_magic() && section.endianness() == order,
        Err(_) => false,
    }
}

#[test]
fn orders_of_sections(rt: HostRuntime) {
    let big = [
        0x1a, 0x2b, 0x3c, 0x4d, 0, 1, 0, 0, 0, 0, 0, 0, 0, 0, 0, 0x10,
    ];
    let little = [
        0x4d, 0x3c, 0x2b, 0x1a, 1, 0, 2, 0, 0xff, 0xff, 0xff, 0xff, 0xff, 0xff, 0xff, 0xff,
    ];
    assert!(rt; has_order(rt.alloc(), &big, Endianness::Big));
    assert!(rt; has_order(rt.alloc(), &little, Endianness::Little));
}

#[test]
fn each_option_of_a_section(rt: HostRuntime) -> Result<(), Fail> {
    let row =
        "section 1a2b3c4d 0001 0000 0000000000000000 .. => [] SectionHeaderBlock { magic: 439041101, major_version: 1, minor_version: 0, section_length: 0, options: [..] }";
    let table = r#"
        0001 0002 6869 ffff => Comment("hi")
        0002 0001 61 ffffff => Hardware("a")
        0003 0001 62 ffffff => OS("b")
        0004 0003 e282ac ff => UserApplication("€")
        0bac 0006 00007ed9 6869 ffff => CustomUtf8(CustomUtf8Option { code: 2988, pen: 32473, value: "hi" })
        4bac 0004 00000001 => CustomUtf8(CustomUtf8Option { code: 19372, pen: 1, value: "" })
        0bad 0005 00007ed9 ff ffffff => CustomBinary(CustomBinaryOption { code: 2989, pen: 32473, value: Borrowed([255]) })
        4bad 0004 00000002 => CustomBinary(CustomBinaryOption { code: 19373, pen: 2, value: Borrowed([]) })
        0063 0002 aabb ffff => Unknown(UnknownOption { code: 99, length: 2, value: Borrowed([170, 187]) })
    "#;
    whole_list::<Section>(rt.alloc(), row, table)
}
