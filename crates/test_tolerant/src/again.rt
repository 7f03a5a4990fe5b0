//! The search for the next packets after corrupt bytes in a classic capture.

use crate::tables::every_call;
use pcap_classic::pcap::PcapParser;
use pcap_tolerant::resync::resync;
use std::alloc::Global;
use std::test::Fail;
use test_support::captures::{back, big, front};

// How many packets must follow each other, the parts of the bytes after the header, and where packets are found among them.
const PLACES: &str = r#"
    // behind garbage
    1 packet => Some(0)
    2 packet packet => Some(0)
    2 text packet packet => Some(35)
    2 zeros packet packet => Some(100)
    2 tail packet packet => Some(64)
    // the first packet is alone, and corrupt bytes follow it
    1 packet text packet packet => Some(0)
    2 packet text packet packet => Some(149)
    // the last packet is at the end, so fewer than two are enough
    2 packet text packet => Some(149)
    2 packet text => None
    // no packet
    1 => None
    1 fewer => None
    1 front => None
"#;

// Returns the part of this name, or None if no part has it. A packet record has 114 bytes.
fn part<'a>(name: &str, packet: &'a [u8]) -> Option<&'a [u8]> {
    Some(match name {
        "packet" => packet,
        "tail" => back(packet, 50),
        "front" => front(packet, 113),
        "text" => b"garbage of text, which is no packet",
        "zeros" => &[0; 100],
        "fewer" => &[0; 64],
        _ => return None,
    })
}

// Formats where packets are found, under the big-endian header.
fn again(alloc: Global, words: &str, _given: &[u8]) -> Result<String, Fail> {
    let capture = big(alloc)?;
    let (packet, parser) = PcapParser::new(capture.as_slice())?;
    let (k, parts) = words.split_once(' ').unwrap_or((words, ""));
    let k = k.parse::<usize>().ok().ok_or("a number")?;
    let mut bytes = Vec::new(alloc);
    for name in parts.split_whitespace() {
        bytes.extend_from_slice(part(name, packet).ok_or("an unknown part")?)?;
    }
    Ok(format!(in alloc; "{:?}", resync(&parser, bytes.as_slice(), k))?)
}

#[test]
fn places(rt: HostRuntime) -> Result<(), Fail> {
    every_call(rt.alloc(), PLACES, again)
}
