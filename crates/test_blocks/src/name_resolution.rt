//! Name resolution: names, records and bodies.

use crate::rows::{Calls, every_call, no_call, whole_list};
use byteorder::BigEndian;
use pcap_blocks::{
    Ipv4Record, Ipv6Record, NameResolutionBlock, Record, str_from_u8_null_terminated,
};
use std::alloc::Global;
use std::test::*;
use test_support::rows::{bytes, told, told_alone};

// Parses bytes as what a row names: a name, a record of one kind or of any, or a body.
struct Names;

impl Calls for Names {
    fn result(alloc: Global, name: &str, digits: &str) -> Result<String, Fail> {
        let bytes = bytes(alloc, digits)?;
        let slice = bytes.as_slice();
        match name {
            "name" => told(alloc, str_from_u8_null_terminated(slice)),
            "ipv4" => told_alone(alloc, Ipv4Record::from_slice(alloc, slice)),
            "ipv6" => told_alone(alloc, Ipv6Record::from_slice(alloc, slice)),
            "record" => told(alloc, Record::from_slice::<BigEndian>(alloc, slice)),
            "body" => told(
                alloc,
                NameResolutionBlock::from_slice::<BigEndian>(alloc, slice),
            ),
            _ => Err(no_call(name)),
        }
    }
}

const NAMES: &str = r#"
    name 61 00 62 00 => [98, 0] "a"
    name 61 => Non null terminated string
    name => Non null terminated string
    name ff00 => Utf8Error
    name ff0061 => Utf8Error
    name ff61 => Non null terminated string
    ipv4 7f000001 6100 => Ipv4Record { ip_addr: Borrowed([127, 0, 0, 1]), names: ["a"] }
    ipv4 7f00000100 => NameResolutionBlock: Ipv4Record len < 6
    ipv6 00000000000000000000000000000000 6100 => Ipv6Record { ip_addr: Borrowed([0, 0, 0, 0, 0, 0, 0, 0, 0, 0, 0, 0, 0, 0, 0, 0]), names: ["a"] }
    ipv6 00000000000000000000000000000000 6100 00 => Ipv6Record { ip_addr: Borrowed([0, 0, 0, 0, 0, 0, 0, 0, 0, 0, 0, 0, 0, 0, 0, 0]), names: ["a", ""] }
    ipv6 7f00000100 => NameResolutionBlock: Ipv6Record len < 18
    record 0001 0006 7f000001 6100 0000 => [] Ipv4(Ipv4Record { ip_addr: Borrowed([127, 0, 0, 1]), names: ["a"] })
    record 0001 0006 7f000001 0000 0000 => [] Ipv4(Ipv4Record { ip_addr: Borrowed([127, 0, 0, 1]), names: ["", ""] })
    record 0002 0012 00000000000000000000000000000000 6100 0000 => [] Ipv6(Ipv6Record { ip_addr: Borrowed([0, 0, 0, 0, 0, 0, 0, 0, 0, 0, 0, 0, 0, 0, 0, 0]), names: ["a"] })
    record 0002 0012 00000000000000000000000000000000 6100 0000 ff => [255] Ipv6(Ipv6Record { ip_addr: Borrowed([0, 0, 0, 0, 0, 0, 0, 0, 0, 0, 0, 0, 0, 0, 0, 0]), names: ["a"] })
    record 0009 0001 aa ffffff => [] Unknown(UnknownRecord { type_: 9, length: 1, value: Borrowed([170]) })
    record 0000 0000 ff => [255] End
    record 000100 => IoError
    record 0000 0004 => NameResolutionBlock: Record length > slice.len()
    record 0000 0004 00000000 => NameResolutionBlock: nrb_record_end length != 0
    record 0001 0005 7f000001 00 000000 => NameResolutionBlock: Ipv4Record len < 6
    record 0001 0006 7f000001 6161 0000 => Non null terminated string
    record 0001 0006 7f000001 ff00 0000 => Utf8Error
    record 0001 0006 7f000001 6100 => NameResolutionBlock: Record padding > slice.len()
    record 0001 0006 7f000001 6161 => Non null terminated string
    record 0002 0011 0000000000000000000000000000000000 000000 => NameResolutionBlock: Ipv6Record len < 18
    record 0009 0001 aa ffff => NameResolutionBlock: Record padding > slice.len()
    body 0001 0008 7f000001 61006200 0000 0000 => [] NameResolutionBlock { records: [Ipv4(Ipv4Record { ip_addr: Borrowed([127, 0, 0, 1]), names: ["a", "b"] })], options: [] }
    body 0001 0008 7f000001 61006200 0000 0000 0003 0004 08080808 0000 0000 => [] NameResolutionBlock { records: [Ipv4(Ipv4Record { ip_addr: Borrowed([127, 0, 0, 1]), names: ["a", "b"] })], options: [NsDnsIpv4Addr(Borrowed([8, 8, 8, 8]))] }
    body 0001 0008 7f000001 61006200 => IoError
    body => IoError
    body 0000 0000 0003 0003 080808 00 => NameResolutionOption: NsDnsIpv4Addr length != 4
    body 0000 0000 0004 0004 08080808 => NameResolutionOption: NsDnsIpv6Addr length != 16
"#;

#[test]
fn names_records_and_bodies(rt: HostRuntime) -> Result<(), Fail> {
    every_call::<Names>(rt.alloc(), NAMES)
}

#[test]
fn each_option_of_names(rt: HostRuntime) -> Result<(), Fail> {
    let row =
        r#"body 0001 0008 7f000001 61006200 0000 0000 .. 0000 0000 => [] NameResolutionBlock { records: [Ipv4(Ipv4Record { ip_addr: Borrowed([127, 0, 0, 1]), names: ["a", "b"] })], options: [..] }"#;
    let table = r#"
        0003 0004 08080808 => NsDnsIpv4Addr(Borrowed([8, 8, 8, 8]))
        0001 0001 61 000000 => Comment("a")
        0002 0001 62 000000 => NsDnsName("b")
        0004 0010 00000000000000000000000000000001 => NsDnsIpv6Addr(Borrowed([0, 0, 0, 0, 0, 0, 0, 0, 0, 0, 0, 0, 0, 0, 0, 1]))
        0bac 0004 00000001 => CustomUtf8(CustomUtf8Option { code: 2988, pen: 1, value: "" })
        0bad 0004 00000002 => CustomBinary(CustomBinaryOption { code: 2989, pen: 2, value: Borrowed([]) })
        4bac 0004 00000003 => CustomUtf8(CustomUtf8Option { code: 19372, pen: 3, value: "" })
        4bad 0005 00000004 aa 000000 => CustomBinary(CustomBinaryOption { code: 19373, pen: 4, value: Borrowed([170]) })
        0005 0000 => Unknown(UnknownOption { code: 5, length: 0, value: Borrowed([]) })
    "#;
    whole_list::<Names>(rt.alloc(), row, table)
}
