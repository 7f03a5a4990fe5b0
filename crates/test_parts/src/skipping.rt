//! Packets and blocks that are skipped. A row is the capture, how many bytes of it are there, the word `skip`, and how many bytes the call
//! has to skip at least. The number `most` is the largest `usize`. After the arrow are how many items are skipped, how many bytes follow
//! them, and what follows: `behind` lists that.

use crate::cutting::{Asked, every_row};
use pcap_classic::pcap::PcapParser;
use pcap_core::PcapError;
use pcap_file::PcapNgParser;
use pcap_items::Rest;
use pcap_parts::{Passed, skip_blocks, skip_packets};
use std::alloc::{AllocError, Global};
use std::test::*;

// Returns what follows the skipped items: all the requested bytes were skipped, or nothing follows, or bytes are missing, or the next item
// is refused.
fn behind(rest: &Option<Rest>) -> (&'static str, usize) {
    match rest {
        None => ("bound", 0),
        Some(Rest::Clean) => ("nothing", 0),
        Some(Rest::Needs(missing)) => ("lacks", *missing),
        Some(Rest::Refused(PcapError::InvalidField(_))) => ("refusal", 0),
        Some(Rest::Refused(_)) => ("another", 0),
    }
}

fn shown(alloc: Global, passed: &Passed<'_>) -> Result<String, AllocError> {
    let (behind, missing) = behind(&passed.rest);
    format!(in alloc;
        "{} {} {behind} {missing}",
        passed.items,
        passed.after.len()
    )
}

fn packets(alloc: Global, bytes: &[u8], asked: Asked<'_>) -> Result<String, Fail> {
    let (left, parser) = PcapParser::new(bytes)?;
    Ok(shown(alloc, &skip_packets(&parser, left, asked.number))?)
}

#[test]
fn packets_of_a_capture(rt: HostRuntime) -> Result<(), Fail> {
    // The packets end after 19, 35, 56, 73 and 99 bytes.
    let table = "
        five 123 skip 0 => 0 99 bound 0
        five 123 skip 1 => 1 80 bound 0
        five 123 skip 19 => 1 80 bound 0
        five 123 skip 20 => 2 64 bound 0
        five 123 skip 56 => 3 43 bound 0
        five 123 skip 57 => 4 26 bound 0
        five 123 skip 99 => 5 0 bound 0
        five 123 skip 100 => 5 0 nothing 0
        five 114 skip 75 => 4 17 lacks 9
        five 49 skip most => 1 6 lacks 10
        refused 123 skip 57 => 3 43 refusal 0
    ";
    every_row(rt.alloc(), table, packets)
}

// Returns also the byte order of the section then, and how many interfaces it has.
fn blocks(alloc: Global, bytes: &[u8], asked: Asked<'_>) -> Result<String, Fail> {
    let (left, mut parser) = PcapNgParser::new(alloc, bytes)?;
    let told = shown(alloc, &skip_blocks(&mut parser, left, asked.number)?)?;
    let order = parser.section().endianness();
    let interfaces = parser.interfaces().len();
    Ok(format!(in alloc; "{told}; {order:?} {interfaces}")?)
}

#[test]
fn blocks_of_three_sections(rt: HostRuntime) -> Result<(), Fail> {
    let table = "
        three 324 skip 0 => 0 296 bound 0; Big 0
        three 324 skip 1 => 1 276 bound 0; Big 1
        three 324 skip 61 => 4 216 bound 0; Big 2
        three 324 skip 113 => 6 156 bound 0; Little 0
        three 324 skip 220 => 9 76 bound 0; Little 1
        three 324 skip 221 => 10 48 bound 0; Big 0
        three 324 skip 296 => 13 0 bound 0; Big 1
        three 324 skip 297 => 13 0 nothing 0; Big 1
        three 230 skip 200 => 8 22 lacks 18; Little 1
        differs 324 skip 81 => 4 216 refusal 0; Big 2
    ";
    every_row(rt.alloc(), table, blocks)
}
