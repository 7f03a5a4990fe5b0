//! Messages about skipped bytes.

use crate::tables::every_call;
use pcap_core::rules::Rule;
use pcap_damaged::{LeftOut, Scrap};
use pcapfile_as_is::{Position, put_gap};
use std::alloc::Global;
use std::test::Fail;
use test_support::writers::Narrow;

// What seven bytes behind a header of 24 bytes are, and the message about them.
const GAPS: &str = "
    packets => a: 7 bytes at byte 24 are no packets, and are left out by rule 3: PacketHeader incl_len > 0x40000
    blocks => a: 7 bytes at byte 24 are no blocks, and are left out
    packet => a: 7 bytes at byte 24 are of a packet that is cut short, and are left out
    block => a: 7 bytes at byte 24 are of a block that is cut short, and are left out";

// Returns the bytes that are left out, or None if the word is unknown.
fn left_out(words: &str) -> Option<LeftOut> {
    let (scrap, rule) = match words {
        "packets" => (Scrap::NoPackets, Some(Rule::IncludedTooLong)),
        "blocks" => (Scrap::NoBlocks, None),
        "packet" => (Scrap::PacketFront, None),
        "block" => (Scrap::BlockFront, None),
        _ => return None,
    };
    Some(LeftOut {
        bytes: 7,
        scrap,
        rule,
    })
}

// Formats the line that is written about a gap. The first call about the bytes must give a gap, and the second one none.
fn line(alloc: Global, words: &str, _given: &[u8]) -> Result<String, Fail> {
    let mut position = Position::new(24);
    let left_out = left_out(words).ok_or("an unknown word")?;
    let gap = position.pass(left_out).ok_or("no gap")?;
    if position.pass(left_out).is_some() {
        return Err("a second gap")?;
    }
    let mut output = Narrow::new(alloc, 4096, true);
    if put_gap(alloc, &mut output, "a: ", &gap).is_err() {
        return Err("a failed write")?;
    }
    let text = str::from_utf8(output.out.as_slice()).unwrap_or_default();
    match text.split_once('\n') {
        Some((line, "")) => Ok(String::from_str(alloc, line)?),
        _ => Err("not one line")?,
    }
}

#[test]
fn lines_of_gaps(rt: HostRuntime) -> Result<(), Fail> {
    every_call(rt.alloc(), GAPS, line)
}
