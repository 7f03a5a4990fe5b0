//! Lenient reading of packet records. The rows were written by hand.
//!
//! The rows of the first three tables begin with the byte order of the record, the resolution of its time, and the limit on its stored
//! length, as in `big micro 0`. `micro` is microseconds, and `nano` nanoseconds. A limit below 262144 counts as 262144.

use crate::tables::{every_call, told_end};
use byteorder::{BigEndian, ByteOrder, LittleEndian};
use pcap_classic::TsResolution;
use pcap_classic::pcap::{Packet, PcapParser};
use pcap_classic::rules::Rule;
use pcap_tolerant::{Flaws, PacketAsIs, next_packet_as_is};
use std::alloc::Global;
use std::test::Fail;
use test_support::captures::pattern;
use test_support::rows::every_row;

// Packets of three bytes that break each rule, in both byte orders, with one byte after them.
const RULES: &str = r#"
    big micro 0: 00000007 00418937 00000003 00000003 010203 09 => [9] PacketAsIs { ts_sec: 7, fraction: 4294967, incl_len: 3, orig_len: 3, flaws: Flaws { fraction_too_large: false, included_too_long: false, original_too_long: false, included_past_original: false }, data: [1, 2, 3] } at 11.294967s
    big micro 0: 00000007 00418938 00000003 00000003 010203 09 => [9] PacketAsIs { ts_sec: 7, fraction: 4294968, incl_len: 3, orig_len: 3, flaws: Flaws { fraction_too_large: true, included_too_long: false, original_too_long: false, included_past_original: false }, data: [1, 2, 3] } at 11.294968s
    big nano 0: 00000007 ffffffff 00000003 00000003 010203 09 => [9] PacketAsIs { ts_sec: 7, fraction: 4294967295, incl_len: 3, orig_len: 3, flaws: Flaws { fraction_too_large: false, included_too_long: false, original_too_long: false, included_past_original: false }, data: [1, 2, 3] } at 11.294967295s
    big micro 0: 00000007 ffffffff 00000003 00000003 010203 09 => [9] PacketAsIs { ts_sec: 7, fraction: 4294967295, incl_len: 3, orig_len: 3, flaws: Flaws { fraction_too_large: true, included_too_long: false, original_too_long: false, included_past_original: false }, data: [1, 2, 3] } at 4301.967295s
    big micro 0: 00000007 00000000 00000003 00040000 010203 09 => [9] PacketAsIs { ts_sec: 7, fraction: 0, incl_len: 3, orig_len: 262144, flaws: Flaws { fraction_too_large: false, included_too_long: false, original_too_long: false, included_past_original: false }, data: [1, 2, 3] } at 7s
    big micro 0: 00000007 00000000 00000003 00040001 010203 09 => [9] PacketAsIs { ts_sec: 7, fraction: 0, incl_len: 3, orig_len: 262145, flaws: Flaws { fraction_too_large: false, included_too_long: false, original_too_long: true, included_past_original: false }, data: [1, 2, 3] } at 7s
    big nano 0: 00000007 00000000 00000003 ffffffff 010203 09 => [9] PacketAsIs { ts_sec: 7, fraction: 0, incl_len: 3, orig_len: 4294967295, flaws: Flaws { fraction_too_large: false, included_too_long: false, original_too_long: true, included_past_original: false }, data: [1, 2, 3] } at 7s
    big nano 0: 00000007 00000000 00000003 00000002 010203 09 => [9] PacketAsIs { ts_sec: 7, fraction: 0, incl_len: 3, orig_len: 2, flaws: Flaws { fraction_too_large: false, included_too_long: false, original_too_long: false, included_past_original: true }, data: [1, 2, 3] } at 7s
    big micro 0: 00000007 00000000 00000003 00000000 010203 09 => [9] PacketAsIs { ts_sec: 7, fraction: 0, incl_len: 3, orig_len: 0, flaws: Flaws { fraction_too_large: false, included_too_long: false, original_too_long: false, included_past_original: true }, data: [1, 2, 3] } at 7s
    big micro 0: 00000007 00418938 00000003 00040001 010203 09 => [9] PacketAsIs { ts_sec: 7, fraction: 4294968, incl_len: 3, orig_len: 262145, flaws: Flaws { fraction_too_large: true, included_too_long: false, original_too_long: true, included_past_original: false }, data: [1, 2, 3] } at 11.294968s
    big micro 0: 00000007 00418938 00000003 00000002 010203 09 => [9] PacketAsIs { ts_sec: 7, fraction: 4294968, incl_len: 3, orig_len: 2, flaws: Flaws { fraction_too_large: true, included_too_long: false, original_too_long: false, included_past_original: true }, data: [1, 2, 3] } at 11.294968s
    little micro 0: 07000000 37894100 03000000 03000000 010203 09 => [9] PacketAsIs { ts_sec: 7, fraction: 4294967, incl_len: 3, orig_len: 3, flaws: Flaws { fraction_too_large: false, included_too_long: false, original_too_long: false, included_past_original: false }, data: [1, 2, 3] } at 11.294967s
    little micro 0: 07000000 38894100 03000000 03000000 010203 09 => [9] PacketAsIs { ts_sec: 7, fraction: 4294968, incl_len: 3, orig_len: 3, flaws: Flaws { fraction_too_large: true, included_too_long: false, original_too_long: false, included_past_original: false }, data: [1, 2, 3] } at 11.294968s
    little nano 0: 07000000 ffffffff 03000000 03000000 010203 09 => [9] PacketAsIs { ts_sec: 7, fraction: 4294967295, incl_len: 3, orig_len: 3, flaws: Flaws { fraction_too_large: false, included_too_long: false, original_too_long: false, included_past_original: false }, data: [1, 2, 3] } at 11.294967295s
    little micro 0: 07000000 ffffffff 03000000 03000000 010203 09 => [9] PacketAsIs { ts_sec: 7, fraction: 4294967295, incl_len: 3, orig_len: 3, flaws: Flaws { fraction_too_large: true, included_too_long: false, original_too_long: false, included_past_original: false }, data: [1, 2, 3] } at 4301.967295s
    little micro 0: 07000000 00000000 03000000 00000400 010203 09 => [9] PacketAsIs { ts_sec: 7, fraction: 0, incl_len: 3, orig_len: 262144, flaws: Flaws { fraction_too_large: false, included_too_long: false, original_too_long: false, included_past_original: false }, data: [1, 2, 3] } at 7s
    little micro 0: 07000000 00000000 03000000 01000400 010203 09 => [9] PacketAsIs { ts_sec: 7, fraction: 0, incl_len: 3, orig_len: 262145, flaws: Flaws { fraction_too_large: false, included_too_long: false, original_too_long: true, included_past_original: false }, data: [1, 2, 3] } at 7s
    little nano 0: 07000000 00000000 03000000 ffffffff 010203 09 => [9] PacketAsIs { ts_sec: 7, fraction: 0, incl_len: 3, orig_len: 4294967295, flaws: Flaws { fraction_too_large: false, included_too_long: false, original_too_long: true, included_past_original: false }, data: [1, 2, 3] } at 7s
    little nano 0: 07000000 00000000 03000000 02000000 010203 09 => [9] PacketAsIs { ts_sec: 7, fraction: 0, incl_len: 3, orig_len: 2, flaws: Flaws { fraction_too_large: false, included_too_long: false, original_too_long: false, included_past_original: true }, data: [1, 2, 3] } at 7s
    little micro 0: 07000000 00000000 03000000 00000000 010203 09 => [9] PacketAsIs { ts_sec: 7, fraction: 0, incl_len: 3, orig_len: 0, flaws: Flaws { fraction_too_large: false, included_too_long: false, original_too_long: false, included_past_original: true }, data: [1, 2, 3] } at 7s
    little micro 0: 07000000 38894100 03000000 01000400 010203 09 => [9] PacketAsIs { ts_sec: 7, fraction: 4294968, incl_len: 3, orig_len: 262145, flaws: Flaws { fraction_too_large: true, included_too_long: false, original_too_long: true, included_past_original: false }, data: [1, 2, 3] } at 11.294968s
    little micro 0: 07000000 38894100 03000000 02000000 010203 09 => [9] PacketAsIs { ts_sec: 7, fraction: 4294968, incl_len: 3, orig_len: 2, flaws: Flaws { fraction_too_large: true, included_too_long: false, original_too_long: false, included_past_original: true }, data: [1, 2, 3] } at 11.294968s
"#;

// Packets without data, for their times.
const TIMES: &str = r#"
    big micro 0: 00000007 000f423f 00000000 00000000 => [] PacketAsIs { ts_sec: 7, fraction: 999999, incl_len: 0, orig_len: 0, flaws: Flaws { fraction_too_large: false, included_too_long: false, original_too_long: false, included_past_original: false }, data: [] } at 7.999999s
    big micro 0: 00000007 000f4240 00000000 00000000 => [] PacketAsIs { ts_sec: 7, fraction: 1000000, incl_len: 0, orig_len: 0, flaws: Flaws { fraction_too_large: false, included_too_long: false, original_too_long: false, included_past_original: false }, data: [] } at 8s
    big micro 0: 00000007 ffffffff 00000000 00000000 => [] PacketAsIs { ts_sec: 7, fraction: 4294967295, incl_len: 0, orig_len: 0, flaws: Flaws { fraction_too_large: true, included_too_long: false, original_too_long: false, included_past_original: false }, data: [] } at 4301.967295s
    big nano 0: 00000007 3b9ac9ff 00000000 00000000 => [] PacketAsIs { ts_sec: 7, fraction: 999999999, incl_len: 0, orig_len: 0, flaws: Flaws { fraction_too_large: false, included_too_long: false, original_too_long: false, included_past_original: false }, data: [] } at 7.999999999s
    big nano 0: 00000007 ffffffff 00000000 00000000 => [] PacketAsIs { ts_sec: 7, fraction: 4294967295, incl_len: 0, orig_len: 0, flaws: Flaws { fraction_too_large: false, included_too_long: false, original_too_long: false, included_past_original: false }, data: [] } at 11.294967295s
"#;

// Packet headers without their data, under a limit. The number of missing bytes doesn't depend on the flaws of the header.
const LACKS: &str = r#"
    big micro 0: 00000000 ffffffff 00000001 00000001 => needs 1
    big micro 0: 00000000 ffffffff 00000005 00000004 => needs 5
    big micro 0: 00000000 ffffffff 00040000 ffffffff => needs 262144
    big micro 262144: 00000000 ffffffff 00040001 00040001 => invalid PacketHeader incl_len > 0x40000
    big micro 262145: 00000000 ffffffff 00040001 00040001 => needs 262145
    big micro 4294967295: 00000000 ffffffff ffffffff 00000000 => needs 4294967295
"#;

// Formats the result of parsing a packet record, with the time of the packet.
fn told<B: ByteOrder>(
    alloc: Global,
    given: &[u8],
    resolution: TsResolution,
    limit: u32,
) -> Result<String, Fail> {
    match PacketAsIs::from_slice::<B>(given, resolution, limit) {
        Ok((rest, packet)) => {
            let time = packet.timestamp(resolution);
            Ok(format!(in alloc; "{rest:?} {packet:?} at {time:?}")?)
        }
        Err(error) => told_end(alloc, &error),
    }
}

// Does the same as the words of a row say: the byte order, the resolution and the limit.
fn told_as(alloc: Global, words: &str, given: &[u8]) -> Result<String, Fail> {
    let (order, words) = words.split_once(' ').ok_or("a byte order")?;
    let (resolution, limit) = words.split_once(' ').ok_or("a resolution")?;
    let limit = limit.parse::<u32>().ok().ok_or("a limit")?;
    let resolution = match resolution {
        "micro" => TsResolution::MicroSecond,
        "nano" => TsResolution::NanoSecond,
        _ => return Err("an unknown resolution")?,
    };
    match order {
        "big" => told::<BigEndian>(alloc, given, resolution, limit),
        "little" => told::<LittleEndian>(alloc, given, resolution, limit),
        _ => Err("an unknown byte order")?,
    }
}

#[test]
fn packets(rt: HostRuntime) -> Result<(), Fail> {
    for table in [RULES, TIMES, LACKS] {
        every_call(rt.alloc(), table, told_as)?;
    }
    Ok(())
}

// Captures without a whole packet header.
const REQUESTS: &str = r#"
    a1b2c3d4 00020004 00000000 00000000 0000ffff 00000001 => needs 16
    a1b2c3d4 00020004 00000000 00000000 0000ffff 00000001 00000000 00000000 00000000 000000 => needs 1
"#;

// Formats what the first packet of a capture is, or why there is none.
fn first_packet(alloc: Global, given: &[u8]) -> Result<String, Fail> {
    let (rest, parser) = PcapParser::new(given)?;
    match next_packet_as_is(&parser, rest, 0) {
        Ok((_rest, packet)) => Ok(format!(in alloc; "{packet:?}")?),
        Err(error) => told_end(alloc, &error),
    }
}

#[test]
fn requests(rt: HostRuntime) -> Result<(), Fail> {
    every_row(rt.alloc(), REQUESTS, first_packet)
}

// Each flaw with all later ones, in the order in which packets are checked.
const FIRST: &str = r#"
    none => None
    past => Some(IncludedPastOriginal)
    past original => Some(OriginalTooLong)
    past original included => Some(IncludedTooLong)
    past original included fraction => Some(FractionTooLarge)
"#;

// Formats the first of these flaws.
fn first_flaw(alloc: Global, words: &str, _given: &[u8]) -> Result<String, Fail> {
    let flaws = Flaws {
        fraction_too_large: words.contains("fraction"),
        included_too_long: words.contains("included"),
        original_too_long: words.contains("original"),
        included_past_original: words.contains("past"),
    };
    Ok(format!(in alloc; "{:?}", flaws.first())?)
}

#[test]
fn first_flaws(rt: HostRuntime) -> Result<(), Fail> {
    every_call(rt.alloc(), FIRST, first_flaw)
}

// Limits, the header of a packet of 262145 bytes, and the rule by which it is refused, or its flaws.
const LIMITS: &str = r#"
    0: 00000000 00000000 01000400 01000400 => Some(IncludedTooLong)
    262144: 00000000 00000000 01000400 01000400 => Some(IncludedTooLong)
    262145: 00000000 00000000 01000400 01000400 => Flaws { fraction_too_large: false, included_too_long: true, original_too_long: true, included_past_original: false }, given is true
"#;

// Formats why the packet with this header is refused, or its flaws and whether it has the bytes given.
fn long_packet(alloc: Global, words: &str, header: &[u8]) -> Result<String, Fail> {
    let limit = words.parse::<u32>().ok().ok_or("a limit")?;
    let given = pattern(alloc, 262_145)?;
    let mut text = Vec::from_slice(alloc, header)?;
    text.extend_from_slice(given.as_slice())?;
    match PacketAsIs::from_slice::<LittleEndian>(text.as_slice(), TsResolution::NanoSecond, limit) {
        Ok((rest, packet)) => {
            let flaws = packet.flaws;
            let is_given = rest.is_empty() && packet.data == given.as_slice();
            Ok(format!(in alloc; "{flaws:?}, given is {is_given}")?)
        }
        Err(error) => Ok(format!(in alloc; "{:?}", error.rule())?),
    }
}

#[test]
fn lengths_above_the_limit(rt: HostRuntime) -> Result<(), Fail> {
    every_call(rt.alloc(), LIMITS, long_packet)
}

// Three packets of which one breaks a rule, and the rule that strict and lenient reading find in each.
const PLACES: &str = r#"
    01000000 38894100 03000000 04000000 050607  01000000 02000000 03000000 04000000 050607  01000000 02000000 03000000 04000000 050607 => Some(FractionTooLarge) None None
    01000000 02000000 03000000 04000000 050607  01000000 38894100 03000000 04000000 050607  01000000 02000000 03000000 04000000 050607 => None Some(FractionTooLarge) None
    01000000 02000000 03000000 04000000 050607  01000000 02000000 03000000 04000000 050607  01000000 38894100 03000000 04000000 050607 => None None Some(FractionTooLarge)
    01000000 02000000 03000000 01000400 050607  01000000 02000000 03000000 04000000 050607  01000000 02000000 03000000 04000000 050607 => Some(OriginalTooLong) None None
    01000000 02000000 03000000 04000000 050607  01000000 02000000 03000000 01000400 050607  01000000 02000000 03000000 04000000 050607 => None Some(OriginalTooLong) None
    01000000 02000000 03000000 04000000 050607  01000000 02000000 03000000 04000000 050607  01000000 02000000 03000000 01000400 050607 => None None Some(OriginalTooLong)
    01000000 02000000 03000000 02000000 050607  01000000 02000000 03000000 04000000 050607  01000000 02000000 03000000 04000000 050607 => Some(IncludedPastOriginal) None None
    01000000 02000000 03000000 04000000 050607  01000000 02000000 03000000 02000000 050607  01000000 02000000 03000000 04000000 050607 => None Some(IncludedPastOriginal) None
    01000000 02000000 03000000 04000000 050607  01000000 02000000 03000000 04000000 050607  01000000 02000000 03000000 02000000 050607 => None None Some(IncludedPastOriginal)
"#;

// Returns the rule by which strict reading refuses a packet, or None if it reads it.
fn strict_rule(given: &[u8]) -> Option<Rule> {
    match Packet::from_slice::<LittleEndian>(given, TsResolution::MicroSecond) {
        Err(error) => error.rule(),
        Ok(_) => None,
    }
}

// Formats the first rule that each of three packets breaks. Lenient reading gets past all of them.
fn rules_of(alloc: Global, given: &[u8]) -> Result<String, Fail> {
    let mut text = String::new(alloc);
    let mut left = given;
    for _ in 0..3 {
        let strict = strict_rule(left);
        let (rest, packet) = PacketAsIs::from_slice::<LittleEndian>(
            left,
            TsResolution::MicroSecond,
            0,
        )?;
        let first = packet.flaws.first();
        if strict != first {
            return Err("strict reading finds another rule")?;
        }
        if !text.is_empty() {
            text.push(' ')?;
        }
        write!(text, "{first:?}")?;
        left = rest;
    }
    if !left.is_empty() {
        return Err("bytes are left")?;
    }
    Ok(text)
}

#[test]
fn each_rule_at_each_place(rt: HostRuntime) -> Result<(), Fail> {
    every_row(rt.alloc(), PLACES, rules_of)
}
