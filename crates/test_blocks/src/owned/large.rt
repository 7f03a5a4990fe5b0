//! Long lists and long values.

use crate::owned::rows::tell;
use byteorder::BigEndian;
use pcap_blocks::{
    BlockType, EnhancedPacketBlock, EnhancedPacketOption, Ipv4Record, SectionHeaderBlock,
    SimplePacketBlock, SystemdJournalExportBlock, UnknownBlock,
};
use pcap_core::{CowBytes, ResultParsing};
use std::alloc::Global;
use std::test::*;
use test_support::captures::pattern;
use test_support::rows::bytes;

// Returns the bytes of these digits, and then the others.
fn joined(alloc: Global, digits: &str, others: &[u8]) -> Result<Vec<u8>, Fail> {
    let mut joined = bytes(alloc, digits)?;
    joined.extend_from_slice(others)?;
    Ok(joined)
}

// Returns whether `held` has these bytes, borrowed or owned as stated.
fn are(held: &CowBytes, bytes: &[u8], is_borrowed: bool) -> bool {
    held.as_slice() == bytes && held.is_borrowed() == is_borrowed
}

// Returns whether these options are one hash with these bytes.
fn is_hash(options: &[EnhancedPacketOption], bytes: &[u8], is_borrowed: bool) -> bool {
    match options {
        [option] => match option {
            EnhancedPacketOption::Hash(hash) => are(hash, bytes, is_borrowed),
            _ => false,
        },
        _ => false,
    }
}

// Returns digits for the numbers from 10 to 109 as names of three characters, each between `before` and `behind`.
fn hundred_digits(alloc: Global, head: &str, before: &str, behind: &str) -> Result<Vec<u8>, Fail> {
    let mut digits = String::from_str(alloc, head)?;
    for k in 10..110 {
        let (hundreds, tens, ones) = (48 + k / 100, 48 + k / 10 % 10, 48 + k % 10);
        write!(
            digits,
            " {before} {hundreds:02x}{tens:02x}{ones:02x} {behind}"
        )?;
    }
    bytes(alloc, digits.as_str())
}

// Returns the same as text, separated by commas.
fn hundred_texts(alloc: Global, before: &str, behind: &str) -> Result<String, Fail> {
    let mut shown = String::new(alloc);
    for k in 10..110 {
        let comma = if k == 10 { "" } else { ", " };
        write!(shown, "{comma}{before}\"{k:03}\"{behind}")?;
    }
    Ok(shown)
}

// Checks that the section with these bytes gives this text, lent and owned, and nothing is left.
fn tell_section(alloc: Global, body: &[u8], text: &str) -> Result<(), Fail> {
    let (rest, section) = SectionHeaderBlock::from_slice(alloc, body)?;
    tell(alloc, &section, text)?;
    tell(alloc, &section.into_owned(alloc)?, text)?;
    tell(alloc, &rest.len(), "0")
}

#[test]
fn hundred_options(rt: HostRuntime) -> Result<(), Fail> {
    let head = "1a2b3c4d 0001 0000 0000000000000010";
    let body = hundred_digits(rt.alloc(), head, "0003 0003", "00")?;
    let options = hundred_texts(rt.alloc(), "OS(", ")")?;
    let text = format!(in rt.alloc();
        "SectionHeaderBlock {{ magic: 439041101, major_version: 1, minor_version: 0, section_length: 16, options: [{options}] }}"
    )?;
    tell_section(rt.alloc(), body.as_slice(), text.as_str())
}

// Checks that the record with these bytes gives this text, lent and owned.
fn tell_record(alloc: Global, value: &[u8], text: &str) -> Result<(), Fail> {
    let record = Ipv4Record::from_slice(alloc, value)?;
    tell(alloc, &record, text)?;
    let text = text.replace(alloc, "Borrowed(", "Owned(")?;
    tell(alloc, &record.into_owned(alloc)?, text.as_str())
}

#[test]
fn hundred_names(rt: HostRuntime) -> Result<(), Fail> {
    let value = hundred_digits(rt.alloc(), "0a000001", "", "00")?;
    let names = hundred_texts(rt.alloc(), "", "")?;
    let text = format!(in rt.alloc();
        "Ipv4Record {{ ip_addr: Borrowed([10, 0, 0, 1]), names: [{names}] }}"
    )?;
    tell_record(rt.alloc(), value.as_slice(), text.as_str())
}

// Returns whether these options are one hash with these bytes, lent and then owned.
fn are_hash(
    alloc: Global,
    options: Vec<EnhancedPacketOption>,
    bytes: &[u8],
) -> ResultParsing<bool> {
    let mut is_hash_each = is_hash(options.as_slice(), bytes, true);
    for option in options {
        is_hash_each = is_hash_each && is_hash(&[option.into_owned(alloc)?], bytes, false);
    }
    Ok(is_hash_each)
}

#[test]
fn longest_options(rt: HostRuntime) -> Result<(), Fail> {
    let value = pattern(rt.alloc(), 65_535)?;
    let mut list = joined(rt.alloc(), "0003 ffff", value.as_slice())?;
    list.extend_from_slice(&[0xff, 0, 0, 0, 0, 0xaa])?;
    let (rest, options) = EnhancedPacketOption::from_slice::<BigEndian>(
        rt.alloc(),
        list.as_slice(),
    )?;
    assert_eq!(rt; rest, [0xaa].as_slice());
    assert!(rt; are_hash(rt.alloc(), options, value.as_slice())?);
    Ok(())
}

// Returns whether a journal entry, an unknown block and a simple packet each hold these bytes, lent and then owned.

fn entry_holds(alloc: Global, value: &[u8]) -> ResultParsing<bool> {
    let (_rest, entry) = SystemdJournalExportBlock::from_slice::<BigEndian>(value)?;
    let is_lent = are(&entry.journal_entry, value, true);
    Ok(is_lent && are(&entry.into_owned(alloc)?.journal_entry, value, false))
}

fn unknown_holds(alloc: Global, value: &[u8]) -> ResultParsing<bool> {
    let block = UnknownBlock::new(BlockType::Unknown(77), 65_535, value);
    let is_lent = are(&block.value, value, true);
    Ok(is_lent && are(&block.into_owned(alloc)?.value, value, false))
}

fn simple_packet_holds(alloc: Global, body: &[u8], value: &[u8]) -> ResultParsing<bool> {
    let (_rest, packet) = SimplePacketBlock::from_slice::<BigEndian>(body)?;
    let is_lent = are(&packet.data_, value, true);
    Ok(is_lent && are(&packet.into_owned(alloc)?.data_, value, false))
}

#[test]
fn long_bodies(rt: HostRuntime) -> Result<(), Fail> {
    let value = pattern(rt.alloc(), 65_535)?;
    let value = value.as_slice();
    assert!(rt; entry_holds(rt.alloc(), value)?);
    assert!(rt; unknown_holds(rt.alloc(), value)?);
    let body = joined(rt.alloc(), "0000ffff", value)?;
    assert!(rt; simple_packet_holds(rt.alloc(), body.as_slice(), value)?);
    Ok(())
}

// Returns whether a packet holds these bytes as its data and as its one hash.
fn packet_holds(packet: &EnhancedPacketBlock, value: &[u8], is_borrowed: bool) -> bool {
    are(&packet.data_, value, is_borrowed) && is_hash(packet.options.as_slice(), value, is_borrowed)
}

// Returns whether the packet with this body holds these bytes, lent and then owned, and nothing is left.
fn long_packet_holds(alloc: Global, body: &[u8], value: &[u8]) -> ResultParsing<bool> {
    let (rest, packet) = EnhancedPacketBlock::from_slice::<BigEndian>(alloc, body)?;
    let is_lent = rest.is_empty()
        && packet.captured_len == 65_535
        && packet_holds(&packet, value, true);
    Ok(is_lent && packet_holds(&packet.into_owned(alloc)?, value, false))
}

#[test]
fn long_packets(rt: HostRuntime) -> Result<(), Fail> {
    let value = pattern(rt.alloc(), 65_535)?;
    let mut body = joined(
        rt.alloc(),
        "00000001 00000000 00000002 0000ffff 0000ffff",
        value.as_slice(),
    )?;
    body.extend_from_slice(&[0xff, 0, 3, 0xff, 0xff])?;
    body.extend_from_slice(value.as_slice())?;
    body.push(0xff)?;
    assert!(rt; long_packet_holds(rt.alloc(), body.as_slice(), value.as_slice())?);
    Ok(())
}
