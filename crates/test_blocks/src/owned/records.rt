//! Name records by themselves.

use crate::owned::rows::{HasTexts, Owned, compare, compare_with_texts};
use crate::owned::texts::{are_owned, record_owns_texts};
use byteorder::BigEndian;
use pcap_blocks::{Ipv4Record, Ipv6Record, Record, UnknownRecord};
use pcap_core::{CowBytes, ResultParsing};
use std::alloc::Global;
use std::test::*;

impl Owned for Record<'static> {
    fn owned(alloc: Global, body: &[u8]) -> ResultParsing<Self> {
        let (_rest, record) = Record::from_slice::<BigEndian>(alloc, body)?;
        record.into_owned(alloc)
    }
}

impl HasTexts for Record<'static> {
    fn owns_texts(&self) -> bool {
        record_owns_texts(self)
    }
}

impl Owned for Ipv4Record<'static> {
    fn owned(alloc: Global, body: &[u8]) -> ResultParsing<Self> {
        Ipv4Record::from_slice(alloc, body)?.into_owned(alloc)
    }
}

impl HasTexts for Ipv4Record<'static> {
    fn owns_texts(&self) -> bool {
        are_owned(self.names.as_slice())
    }
}

impl Owned for Ipv6Record<'static> {
    fn owned(alloc: Global, body: &[u8]) -> ResultParsing<Self> {
        Ipv6Record::from_slice(alloc, body)?.into_owned(alloc)
    }
}

impl HasTexts for Ipv6Record<'static> {
    fn owns_texts(&self) -> bool {
        are_owned(self.names.as_slice())
    }
}

impl Owned for UnknownRecord<'static> {
    fn owned(alloc: Global, body: &[u8]) -> ResultParsing<Self> {
        let record = UnknownRecord {
            type_: 9,
            length: 1,
            value: CowBytes::Borrowed(body),
        };
        record.into_owned(alloc)
    }
}

const RECORDS: [(&str, &str); 6] = [
    ("0000 0000", "End"),
    (
        "0001 0008 7f000001 61006200",
        r#"Ipv4(Ipv4Record { ip_addr: Owned([127, 0, 0, 1]), names: ["a", "b"] })"#,
    ),
    (
        "0001 0006 7f000001 0000 0000",
        r#"Ipv4(Ipv4Record { ip_addr: Owned([127, 0, 0, 1]), names: ["", ""] })"#,
    ),
    (
        "0001 0006 7f000001 6100 0000",
        r#"Ipv4(Ipv4Record { ip_addr: Owned([127, 0, 0, 1]), names: ["a"] })"#,
    ),
    (
        "0002 0012 00000000000000000000000000000000 6100 0000",
        r#"Ipv6(Ipv6Record { ip_addr: Owned([0, 0, 0, 0, 0, 0, 0, 0, 0, 0, 0, 0, 0, 0, 0, 0]), names: ["a"] })"#,
    ),
    (
        "0009 0001 aa ffffff",
        "Unknown(UnknownRecord { type_: 9, length: 1, value: Owned([170]) })",
    ),
];

const IPV4_RECORDS: [(&str, &str); 2] = [
    (
        "7f000001 6100",
        r#"Ipv4Record { ip_addr: Owned([127, 0, 0, 1]), names: ["a"] }"#,
    ),
    (
        "7f000001 0000",
        r#"Ipv4Record { ip_addr: Owned([127, 0, 0, 1]), names: ["", ""] }"#,
    ),
];

const IPV6_RECORDS: [(&str, &str); 1] = [(
    "00000000000000000000000000000000 6100",
    r#"Ipv6Record { ip_addr: Owned([0, 0, 0, 0, 0, 0, 0, 0, 0, 0, 0, 0, 0, 0, 0, 0]), names: ["a"] }"#,
)];

const UNKNOWN_RECORDS: [(&str, &str); 1] = [(
    "aa",
    "UnknownRecord { type_: 9, length: 1, value: Owned([170]) }",
)];

#[test]
fn records(rt: HostRuntime) -> Result<(), Fail> {
    compare_with_texts::<Record>(rt.alloc(), "", &RECORDS)?;
    compare_with_texts::<Ipv4Record>(rt.alloc(), "", &IPV4_RECORDS)?;
    compare_with_texts::<Ipv6Record>(rt.alloc(), "", &IPV6_RECORDS)?;
    compare::<UnknownRecord>(rt.alloc(), "", &UNKNOWN_RECORDS)
}
