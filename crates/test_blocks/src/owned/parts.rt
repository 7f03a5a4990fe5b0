//! The options that all kinds of blocks share, and byte strings, by themselves.

use crate::owned::rows::{Owned, compare};
use byteorder::BigEndian;
use pcap_blocks::{CustomBinaryOption, CustomUtf8Option, UnknownOption};
use pcap_core::{CowBytes, ResultParsing};
use std::alloc::Global;
use std::test::*;

impl Owned for CustomUtf8Option<'static> {
    fn owned(alloc: Global, body: &[u8]) -> ResultParsing<Self> {
        let option = CustomUtf8Option::from_slice::<BigEndian>(2988, body)?;
        option.into_owned(alloc)
    }
}

impl Owned for CustomBinaryOption<'static> {
    fn owned(alloc: Global, body: &[u8]) -> ResultParsing<Self> {
        let option = CustomBinaryOption::from_slice::<BigEndian>(2989, body)?;
        option.into_owned(alloc)
    }
}

impl Owned for UnknownOption<'static> {
    fn owned(alloc: Global, body: &[u8]) -> ResultParsing<Self> {
        UnknownOption::new(99, 2, body).into_owned(alloc)
    }
}

impl Owned for CowBytes<'static> {
    fn owned(alloc: Global, body: &[u8]) -> ResultParsing<Self> {
        CowBytes::Borrowed(body).into_owned(alloc)
    }
}

const CUSTOM_TEXTS: [(&str, &str); 1] = [(
    "00007ed9 6869",
    r#"CustomUtf8Option { code: 2988, pen: 32473, value: "hi" }"#,
)];

const CUSTOM_BYTES: [(&str, &str); 1] = [(
    "00007ed9 ff",
    "CustomBinaryOption { code: 2989, pen: 32473, value: Owned([255]) }",
)];

const UNKNOWN_OPTIONS: [(&str, &str); 1] = [(
    "aabb",
    "UnknownOption { code: 99, length: 2, value: Owned([170, 187]) }",
)];

// The data, addresses and values of the blocks, options and records.
const BYTES: [(&str, &str); 9] = [
    ("", "Owned([])"),
    ("616263", "Owned([97, 98, 99])"),
    ("61000000", "Owned([97, 0, 0, 0])"),
    ("5f3d0a", "Owned([95, 61, 10])"),
    ("7f000001", "Owned([127, 0, 0, 1])"),
    (
        "00000000000000000000000000000000",
        "Owned([0, 0, 0, 0, 0, 0, 0, 0, 0, 0, 0, 0, 0, 0, 0, 0])",
    ),
    ("08080808", "Owned([8, 8, 8, 8])"),
    ("aa", "Owned([170])"),
    ("aabb", "Owned([170, 187])"),
];

#[test]
fn shared_options(rt: HostRuntime) -> Result<(), Fail> {
    compare::<CustomUtf8Option>(rt.alloc(), "", &CUSTOM_TEXTS)?;
    compare::<CustomBinaryOption>(rt.alloc(), "", &CUSTOM_BYTES)?;
    compare::<UnknownOption>(rt.alloc(), "", &UNKNOWN_OPTIONS)
}

#[test]
fn owned_bytes(rt: HostRuntime) -> Result<(), Fail> {
    compare::<CowBytes>(rt.alloc(), "", &BYTES)
}
