//! Blocks with bytes of each length up to five, which the writer pads with zeros, and the longest values that it can write. `calls`
//! describes the rows. In `simple bytes 3 0` the block has three bytes, and the 0 has no meaning.

use crate::refused::{FILLING, NEXT_BIG, NEXT_LITTLE, check_all};
use pcap_core::Endianness;
use std::alloc::Global;
use std::test::*;

const BIG: &str = "
    simple bytes 0 0 => 00000003 00000010 01020304 00000010
    simple bytes 1 0 => 00000003 00000014 01020304 01000000 00000014
    simple bytes 2 0 => 00000003 00000014 01020304 01020000 00000014
    simple bytes 3 0 => 00000003 00000014 01020304 01020300 00000014
    simple bytes 4 0 => 00000003 00000014 01020304 01020304 00000014
    simple bytes 5 0 => 00000003 00000018 01020304 0102030405000000 00000018
    journal bytes 0 0 => 00000009 0000000c 0000000c
    journal bytes 1 0 => 00000009 00000010 01000000 00000010
    journal bytes 2 0 => 00000009 00000010 01020000 00000010
    journal bytes 3 0 => 00000009 00000010 01020300 00000010
    journal bytes 4 0 => 00000009 00000010 01020304 00000010
    journal bytes 5 0 => 00000009 00000014 0102030405000000 00000014
    unknown bytes 0 0 => 0000000a 0000000c 0000000c
    unknown bytes 1 0 => 0000000a 00000010 01000000 00000010
    unknown bytes 2 0 => 0000000a 00000010 01020000 00000010
    unknown bytes 3 0 => 0000000a 00000010 01020300 00000010
    unknown bytes 4 0 => 0000000a 00000010 01020304 00000010
    unknown bytes 5 0 => 0000000a 00000014 0102030405000000 00000014
    parts bytes 0 0 => 00000006 00000020 00000001 04050607 08090a0b 00000000 0c0d0e0f 00000020
    parts bytes 1 0 => 00000006 00000024 00000001 04050607 08090a0b 00000001 0c0d0e0f 01000000 00000024
    parts bytes 2 0 => 00000006 00000024 00000001 04050607 08090a0b 00000002 0c0d0e0f 01020000 00000024
    parts bytes 3 0 => 00000006 00000024 00000001 04050607 08090a0b 00000003 0c0d0e0f 01020300 00000024
    parts bytes 4 0 => 00000006 00000024 00000001 04050607 08090a0b 00000004 0c0d0e0f 01020304 00000024
    parts bytes 5 0 => 00000006 00000028 00000001 04050607 08090a0b 00000005 0c0d0e0f 0102030405000000 00000028
";

const LITTLE: &str = "
    simple bytes 0 0 => 03000000 10000000 04030201 10000000
    simple bytes 1 0 => 03000000 14000000 04030201 01000000 14000000
    simple bytes 2 0 => 03000000 14000000 04030201 01020000 14000000
    simple bytes 3 0 => 03000000 14000000 04030201 01020300 14000000
    simple bytes 4 0 => 03000000 14000000 04030201 01020304 14000000
    simple bytes 5 0 => 03000000 18000000 04030201 0102030405000000 18000000
    journal bytes 0 0 => 09000000 0c000000 0c000000
    journal bytes 1 0 => 09000000 10000000 01000000 10000000
    journal bytes 2 0 => 09000000 10000000 01020000 10000000
    journal bytes 3 0 => 09000000 10000000 01020300 10000000
    journal bytes 4 0 => 09000000 10000000 01020304 10000000
    journal bytes 5 0 => 09000000 14000000 0102030405000000 14000000
    unknown bytes 0 0 => 0a000000 0c000000 0c000000
    unknown bytes 1 0 => 0a000000 10000000 01000000 10000000
    unknown bytes 2 0 => 0a000000 10000000 01020000 10000000
    unknown bytes 3 0 => 0a000000 10000000 01020300 10000000
    unknown bytes 4 0 => 0a000000 10000000 01020304 10000000
    unknown bytes 5 0 => 0a000000 14000000 0102030405000000 14000000
    parts bytes 0 0 => 06000000 20000000 01000000 07060504 0b0a0908 00000000 0f0e0d0c 20000000
    parts bytes 1 0 => 06000000 24000000 01000000 07060504 0b0a0908 01000000 0f0e0d0c 01000000 24000000
    parts bytes 2 0 => 06000000 24000000 01000000 07060504 0b0a0908 02000000 0f0e0d0c 01020000 24000000
    parts bytes 3 0 => 06000000 24000000 01000000 07060504 0b0a0908 03000000 0f0e0d0c 01020300 24000000
    parts bytes 4 0 => 06000000 24000000 01000000 07060504 0b0a0908 04000000 0f0e0d0c 01020304 24000000
    parts bytes 5 0 => 06000000 28000000 01000000 07060504 0b0a0908 05000000 0f0e0d0c 0102030405000000 28000000
";

#[test]
fn bytes_of_each_length(rt: HostRuntime) -> Result<(), Fail> {
    check_all(rt.alloc(), Endianness::Big, NEXT_BIG, BIG)?;
    check_all(rt.alloc(), Endianness::Little, NEXT_LITTLE, LITTLE)
}

// Checks a row in which dots stand for the first `count` bytes of a value, which repeats these digits. Afterwards `next` is written.
fn is_long(
    alloc: Global,
    order: Endianness,
    (digits, count): (&str, usize),
    [row, next]: [&str; 2],
) -> Result<(), Fail> {
    let all = digits.repeat(alloc, 65_535)?;
    let value = all.get(..count.saturating_mul(2)).ok_or("too few digits")?;
    let row = row.replace(alloc, "..", value)?;
    check_all(alloc, order, next, row.as_str())
}

// A section without interfaces follows the longest text and the longest custom value.
const INTERFACE: &str = "interface plain 0 0 => 00000001 00000014 0001 0000 00000000 00000014";

#[test]
fn longest_options(rt: HostRuntime) -> Result<(), Fail> {
    let text =
        "section hardware 65535 0 => 0a0d0d0a 0001002c 1a2b3c4d 0001 0000 ffffffffffffffff 0001 0002 6f6b0000 0002 ffff .. 00 00000000 0001002c";
    let custom =
        "section custom-bytes 65531 2989 => 0a0d0d0a 0001002c 1a2b3c4d 0001 0000 ffffffffffffffff 0001 0002 6f6b0000 0bad ffff 01020304 .. 00 00000000 0001002c";
    is_long(
        rt.alloc(),
        Endianness::Big,
        ("61", 65_535),
        [text, INTERFACE],
    )?;
    is_long(
        rt.alloc(),
        Endianness::Big,
        (FILLING, 65_531),
        [custom, INTERFACE],
    )
}

#[test]
fn longest_records(rt: HostRuntime) -> Result<(), Fail> {
    let ipv4 =
        "ipv4 65530 4 0 => 04000000 20000100 0100 0600 0a000001 61000000 0100 ffff 01020304 .. 00 00 00000000 20000100";
    let unknown =
        "record 65535 65535 3 => 04000000 20000100 0100 0600 0a000001 61000000 0300 ffff .. 00 00000000 20000100";
    is_long(
        rt.alloc(),
        Endianness::Little,
        ("61", 65_530),
        [ipv4, NEXT_LITTLE],
    )?;
    is_long(
        rt.alloc(),
        Endianness::Little,
        (FILLING, 65_535),
        [unknown, NEXT_LITTLE],
    )
}
