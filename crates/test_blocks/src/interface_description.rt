//! Interface descriptions.

use crate::rows::{Calls, every_call, no_call, whole_list};
use byteorder::{BigEndian, LittleEndian};
use pcap_blocks::InterfaceDescriptionBlock;
use std::alloc::Global;
use std::test::*;
use test_support::rows::{bytes, told};

// Parses a body in the byte order that a row names.
struct Interface;

impl Calls for Interface {
    fn result(alloc: Global, name: &str, digits: &str) -> Result<String, Fail> {
        let bytes = bytes(alloc, digits)?;
        let body = bytes.as_slice();
        match name {
            "big" => told(
                alloc,
                InterfaceDescriptionBlock::from_slice::<BigEndian>(alloc, body),
            ),
            "little" => told(
                alloc,
                InterfaceDescriptionBlock::from_slice::<LittleEndian>(alloc, body),
            ),
            _ => Err(no_call(name)),
        }
    }
}

const INTERFACES: &str = "
    little 0100 0000 00000400 0900 0100 06 000000 0e00 0800 0100000000000000 0000 0000 => [] InterfaceDescriptionBlock { linktype: ETHERNET, reserved: 0, snaplen: 262144, options: [IfTsResol(6), IfTsOffset(1)] }
    big 0001 0000 00040000 000a 0004 00000e10 0000 0000 => [] InterfaceDescriptionBlock { linktype: ETHERNET, reserved: 0, snaplen: 262144, options: [IfTzone(3600)] }
    big 0002 0003 00040000 000a 0004 00000e10 0000 0000 aa => [170] InterfaceDescriptionBlock { linktype: Unknown(2), reserved: 3, snaplen: 262144, options: [IfTzone(3600)] }
    big 00010000000400 => InterfaceDescriptionBlock: block length < 8
    big 0001 0000 00040000 000a 0001 10 000000 0000 0000 => InterfaceDescriptionOption: IfTzone length != 4
    big 0001 0000 00040000 000a 0003 000010 00 0000 0000 => InterfaceDescriptionOption: IfTzone length != 4
    big 0001 0000 00040000 000b 0000 0000 0000 => InterfaceDescriptionOption: IfFilter is empty
    big 0001 0000 00040000 0004 0004 c0a80001 => InterfaceDescriptionOption: IfIpv4Addr length != 8
    big 0001 0000 00040000 0005 0010 00000000000000000000000000000000 => InterfaceDescriptionOption: IfIpv6Addr length != 17
    big 0001 0000 00040000 0006 0008 0001020304050607 => InterfaceDescriptionOption: IfMacAddr length != 6
    big 0001 0000 00040000 0007 0004 00010203 => InterfaceDescriptionOption: IfEuIAddr length != 8
    big 0001 0000 00040000 0008 0000 => InterfaceDescriptionOption: IfSpeed length != 8
    big 0001 0000 00040000 0009 0002 0600 0000 => InterfaceDescriptionOption: IfTsResol length != 1
    big 0001 0000 00040000 000d 0000 => InterfaceDescriptionOption: IfFcsLen length != 1
    big 0001 0000 00040000 000e 0004 00000001 => InterfaceDescriptionOption: IfTsOffset length != 8
    big 0001 0000 00040000 0002 0001 ff 000000 => Utf8Error
    big 0001 0000 00040000 0bac 0003 616263 00 => IoError
    big 0001 0000 00040000 0002 0001 61 0000 => Option: length + pad.len() > slice.len()
    big 0001 0000 00040000 0002 0001 61 000000 0000 => Option: slice.len() < 4
";

#[test]
fn interfaces(rt: HostRuntime) -> Result<(), Fail> {
    every_call::<Interface>(rt.alloc(), INTERFACES)
}

#[test]
fn each_option_of_an_interface(rt: HostRuntime) -> Result<(), Fail> {
    let row =
        "big 0001 0000 00040000 .. => [] InterfaceDescriptionBlock { linktype: ETHERNET, reserved: 0, snaplen: 262144, options: [..] }";
    let table = r#"
        0001 0001 61 000000 => Comment("a")
        0002 0001 62 000000 => IfName("b")
        0003 0001 63 000000 => IfDescription("c")
        0004 0008 c0a80001 ffffff00 => IfIpv4Addr(Borrowed([192, 168, 0, 1, 255, 255, 255, 0]))
        0005 0011 20010db8 00000000 00000000 00000001 40 000000 => IfIpv6Addr(Borrowed([32, 1, 13, 184, 0, 0, 0, 0, 0, 0, 0, 0, 0, 0, 0, 1, 64]))
        0006 0006 000102030405 0000 => IfMacAddr(Borrowed([0, 1, 2, 3, 4, 5]))
        0007 0008 0001020304050607 => IfEuIAddr(283686952306183)
        0008 0008 000000003b9aca00 => IfSpeed(1000000000)
        0009 0001 86 000000 => IfTsResol(134)
        000a 0004 fffffff6 => IfTzone(4294967286)
        000b 0003 007463 00 => IfFilter(Borrowed([0, 116, 99]))
        000c 0001 64 000000 => IfOs("d")
        000d 0001 20 000000 => IfFcsLen(32)
        000e 0008 0000000100000000 => IfTsOffset(4294967296)
        000f 0001 65 000000 => IfHardware("e")
    "#;
    whole_list::<Interface>(rt.alloc(), row, table)?;
    let row =
        "big 0001 0000 00040000 .. 0000 0000 => [] InterfaceDescriptionBlock { linktype: ETHERNET, reserved: 0, snaplen: 262144, options: [..] }";
    let table = r#"
        0bac 0006 00007ed9 6869 0000 => CustomUtf8(CustomUtf8Option { code: 2988, pen: 32473, value: "hi" })
        0063 0002 aabb ffff => Unknown(UnknownOption { code: 99, length: 2, value: Borrowed([170, 187]) })
        4bad 0005 00000001 cc 000000 => CustomBinary(CustomBinaryOption { code: 19373, pen: 1, value: Borrowed([204]) })
        4bac 0004 00000002 => CustomUtf8(CustomUtf8Option { code: 19372, pen: 2, value: "" })
        0bad 0004 00000003 => CustomBinary(CustomBinaryOption { code: 2989, pen: 3, value: Borrowed([]) })
    "#;
    whole_list::<Interface>(rt.alloc(), row, table)
}
