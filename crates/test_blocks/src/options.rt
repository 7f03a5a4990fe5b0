//! Options by themselves.

use byteorder::{BigEndian, LittleEndian};
use pcap_blocks::{CustomBinaryOption, CustomUtf8Option, UnknownOption};
use std::alloc::Global;
use std::test::*;
use test_support::rows::{every_row, told_alone};

// Each of these returns whether an option with these bytes has the expected codes, numbers and values.

fn is_text(value: &[u8]) -> bool {
    match &CustomUtf8Option::from_slice::<BigEndian>(7, value) {
        Ok(custom) => custom.code() == 7 && custom.pen() == 32473 && custom.value() == "hi",
        Err(_) => false,
    }
}

fn is_binary(value: &[u8]) -> bool {
    match &CustomBinaryOption::from_slice::<LittleEndian>(8, value) {
        Ok(custom) => {
            custom.code() == 8
                && custom.pen() == 0xd97e0000
                && custom.value() == [0x68, 0x69].as_slice()
        }
        Err(_) => false,
    }
}

fn is_unknown(value: &[u8]) -> bool {
    let unknown = UnknownOption::new(9, 10, value);
    unknown.code() == 9 && unknown.length() == 10 && unknown.value() == value
}

#[test]
fn options_by_themselves(rt: HostRuntime) {
    let value = [0x00, 0x00, 0x7e, 0xd9, 0x68, 0x69];
    assert!(rt; is_text(&value));
    assert!(rt; is_binary(&value));
    assert!(rt; is_unknown(&value));
}

// Formats the result of parsing a value.

fn text(alloc: Global, value: &[u8]) -> Result<String, Fail> {
    told_alone(
        alloc,
        CustomUtf8Option::from_slice::<BigEndian>(2988, value),
    )
}

fn binary(alloc: Global, value: &[u8]) -> Result<String, Fail> {
    told_alone(
        alloc,
        CustomBinaryOption::from_slice::<BigEndian>(2989, value),
    )
}

#[test]
fn refused_custom_options(rt: HostRuntime) -> Result<(), Fail> {
    let texts = "
        616263 => IoError
        00007ed9 ff => Utf8Error
    ";
    every_row(rt.alloc(), texts, text)?;
    every_row(rt.alloc(), "616263 => IoError", binary)
}
