//! The bytes of the options whose values break no rule, and mended blocks. The rows were written by hand, from the rules of the format.

use crate::tables::{digits_of, every_call};
use pcap_blocks::BlockType;
use pcap_core::Endianness;
use pcap_tolerant_blocks::{OptionsOf, put_sound_options};
use pcap_written::RawBlock;
use pcapfile_mended::mend;
use std::alloc::Global;
use std::test::Fail;
use test_support::rows::bytes;

// Lists of options, and the valid ones among them.
const SOUND: &str = r#"
    // a comment that isn't UTF-8, a resolution with padding of ones, an address of 7 bytes, a speed of 4, an unknown code, the end mark
    interface big: 0001 0001 ff000000 0009 0001 09ffffff 0004 0007 0102030405060700 0008 0004 00000001 004d 0002 ffff0000 0000 0000 abcd => 00090001 09ffffff 004d0002 ffff0000
    // no end mark, and an empty option
    interface big: 0002 0000 000d 0002 01010000 => 00020000
    // an option is truncated, so the list ends there
    interface big: 0009 0001 06000000 0001 00c8 61000000 => 00090001 06000000
    // a custom option that is too short for its enterprise number
    interface big: 0bac 0002 01020000 0bad 0004 00000001 => 0bad0004 00000001
    interface big: =>
    interface big: 0000 0000 0009 0001 09000000 =>
    // in a packet, code 2 is flags of 4 bytes, and code 4 a count of 8
    enhanced little: 0200 0400 01000000 0200 0200 01000000 0400 0400 01000000 0400 0800 0100000000000000 => 02000400 01000000 04000800 01000000 00000000
    // in a section, both are texts
    section little: 0200 0200 61620000 0400 0100 ff000000 0300 0000 0000 0000 => 02000200 61620000 03000000
"#;

// Bodies of blocks, and the report and the bytes of the mended blocks.
const MENDED: &str = r#"
    // no stated length, and a comment
    section big: 1a2b3c4d 0001 0000 ffffffffffffffff 0001 0002 61620000 => Stays 0a0d0d0a 00000024 1a2b3c4d 00010000 ffffffff ffffffff 00010002 61620000 00000024
    // a stated length; the bytes after the end mark stay
    section big: 1a2b3c4d 0001 0002 0000000000000040 0001 0002 6162ffff 0000 0000 01020304 => Changed 0a0d0d0a 0000002c 1a2b3c4d 00010002 ffffffff ffffffff 00010002 6162ffff 00000000 01020304 0000002c
    // a stated length, a comment that isn't UTF-8, and an operating system
    section big: 1a2b3c4d 0001 0000 0000000000000040 0001 0001 ff000000 0003 0001 61000000 0000 0000 => Changed 0a0d0d0a 00000024 1a2b3c4d 00010000 ffffffff ffffffff 00030001 61000000 00000024
    // no byte order, and too short
    section big: 01020304 0001 0000 ffffffffffffffff => LeftOut
    section big: 1a2b3c4d 0001 0000 ffffffff => LeftOut
    section little: 4d3c2b1a 0100 0000 4000000000000000 => Changed 0a0d0d0a 1c000000 4d3c2b1a 01000000 ffffffff ffffffff 1c000000
    // an option is truncated after a valid one
    section little: 4d3c2b1a 0100 0000 ffffffffffffffff 0400 0100 61000000 0100 c800 61000000 => Changed 0a0d0d0a 24000000 4d3c2b1a 01000000 ffffffff ffffffff 04000100 61000000 24000000
    interface big: 0001 0000 00040000 0009 0001 09000000 0000 0000 => Stays 00000001 00000020 00010000 00040000 00090001 09000000 00000000 00000020
    // a speed of 4 bytes, and a resolution
    interface big: 0001 0000 00040000 0008 0004 00000001 0009 0001 09000000 0000 0000 => Changed 00000001 0000001c 00010000 00040000 00090001 09000000 0000001c
    // no space for the fields
    interface big: 00710000 => Changed 00000001 00000014 00710000 00000000 00000014
    interface big: => Changed 00000001 00000014 00000000 00000000 00000014
    enhanced little: 00000000 01000000 02000000 03000000 05000000 010203ff 0200 0400 01000000 => Stays 06000000 2c000000 00000000 01000000 02000000 03000000 05000000 010203ff 02000400 01000000 2c000000
    // flags of 2 bytes, and a count
    enhanced little: 00000000 01000000 02000000 03000000 05000000 010203ff 0200 0200 01000000 0400 0800 0100000000000000 0000 0000 => Changed 06000000 30000000 00000000 01000000 02000000 03000000 05000000 010203ff 04000800 01000000 00000000 30000000
    // a truncated option after no data
    enhanced little: 00000000 01000000 02000000 00000000 05000000 0200 0800 01000000 => Changed 06000000 20000000 00000000 01000000 02000000 00000000 05000000 20000000
    // five bytes are stated, but only four are there
    enhanced little: 00000000 01000000 02000000 05000000 05000000 01020304 => LeftOut
    enhanced little: 00000000 01000000 02000000 00000000 => LeftOut
    // an obsolete packet: flags of 2 bytes, and a hash
    packet big: 0000 ffff 00000001 00000002 00000001 00000001 01000000 0002 0002 00010000 0003 0001 02000000 => Changed 00000002 0000002c 0000ffff 00000001 00000002 00000001 00000001 01000000 00030001 02000000 0000002c
    // statistics: a number of 4 bytes, and one of 8
    statistics big: 00000000 00000001 00000002 0004 0004 00000007 0005 0008 0000000000000003 => Changed 00000005 00000024 00000000 00000001 00000002 00050008 00000000 00000003 00000024
    statistics big: 00000000 00000001 => LeftOut
    // a simple packet, and one with no space for its length
    simple big: 00000002 01020000 => Stays 00000003 00000014 00000002 01020000 00000014
    simple big: => LeftOut
    // a name of an address, and a truncated address
    names big: 0001 0006 01020304 61000000 0000 0000 => Stays 00000004 0000001c 00010006 01020304 61000000 00000000 0000001c
    names big: 0001 0002 01020000 0000 0000 => LeftOut
    // a block of an unknown type
    unknown big: 00000001 0000ffff => Stays 00000bad 00000014 00000001 0000ffff 00000014
"#;

// Returns the type of the block and the byte order that the words of a row name, or None if one of the words is unknown.
fn named(words: &str) -> Option<(BlockType, Endianness)> {
    let (kind, order) = words.split_once(' ')?;
    let type_ = match kind {
        "section" => BlockType::SectionHeader,
        "interface" => BlockType::InterfaceDescription,
        "enhanced" => BlockType::EnhancedPacket,
        "packet" => BlockType::Packet,
        "simple" => BlockType::SimplePacket,
        "statistics" => BlockType::InterfaceStatistics,
        "names" => BlockType::NameResolution,
        "unknown" => BlockType::Unknown(0xbad),
        _ => return None,
    };
    match order {
        "big" => Some((type_, Endianness::Big)),
        "little" => Some((type_, Endianness::Little)),
        _ => None,
    }
}

// Formats the valid options among these bytes. `put_sound_options` must append them to the byte that is there before. That is one byte and
// not four, so that the test notices padding that is counted from the front of all bytes.
fn sound(alloc: Global, words: &str, given: &[u8]) -> Result<String, Fail> {
    let (type_, order) = named(words).ok_or("unknown words")?;
    let of = match type_ {
        BlockType::SectionHeader => OptionsOf::Section,
        BlockType::InterfaceDescription => OptionsOf::Interface,
        BlockType::EnhancedPacket => OptionsOf::EnhancedPacket,
        _ => return Err("a kind that no row has")?,
    };
    let mut out = bytes(alloc, "77")?;
    put_sound_options(of, order, given, &mut out)?;
    match out.as_slice().split_first() {
        Some((0x77, added)) => digits_of(alloc, added),
        _ => Err("the byte before is another")?,
    }
}

#[test]
fn sound_options(rt: HostRuntime) -> Result<(), Fail> {
    every_call(rt.alloc(), SOUND, sound)
}

// Formats the report about a block with this body, and the bytes of the mended block.
fn mended(alloc: Global, words: &str, given: &[u8]) -> Result<String, Fail> {
    if given.len() > 1000 {
        return Err("a long body")?;
    }
    let (type_, endianness) = named(words).ok_or("unknown words")?;
    let block = RawBlock {
        type_,
        endianness,
        body: given,
    };
    let mut room = bytes(alloc, "aabb")?;
    let mut made = bytes(alloc, "ccdd")?;
    let report = mend(alloc, block, &mut room, &mut made)?;
    let digits = digits_of(alloc, made.as_slice())?;
    Ok(format!(in alloc; "{report:?}{digits}")?)
}

#[test]
fn mended_blocks(rt: HostRuntime) -> Result<(), Fail> {
    every_call(rt.alloc(), MENDED, mended)
}
