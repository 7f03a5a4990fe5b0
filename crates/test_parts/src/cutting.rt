//! Cuts of captures. A row is `CAPTURE COUNT WHAT NUMBER => TOLD`: the capture, how many bytes of it are there, what the test asks for, a
//! number, and what the call tells. `named` has the captures. The number `most` is the largest `usize`.

use crate::captures::named;
use pcap_core::{PcapError, ResultParsing};
use pcap_parts::{Cuts, NgCuts, cut_pcap, cut_pcap_at_least, cut_pcapng, cut_pcapng_at_least};
use std::alloc::{AllocError, Global};
use std::test::*;
use test_support::captures::{LITTLE_HEAD, front};

// The question of a row.
#[derive(Clone, Copy)]
pub(crate) struct Asked<'a> {
    pub what: &'a str,
    pub number: usize,
}

// Returns the bytes of a row's capture, the question that the row asks about them, and the answer.
fn parsed<'a>(alloc: Global, row: &'a str) -> Result<(Vec<u8>, Asked<'a>, &'a str), Fail> {
    let (asked, told) = row.trim().split_once(" => ").ok_or("a row with no arrow")?;
    let (name, rest) = asked.split_once(' ').ok_or("a row of one word")?;
    let (count, rest) = rest.split_once(' ').ok_or("a row of two words")?;
    let (what, number) = rest.split_once(' ').ok_or("a row of three words")?;
    let count = count.parse::<usize>().ok().ok_or("no count")?;
    let number = match number {
        "most" => usize::MAX,
        digits => digits.parse::<usize>().ok().ok_or("no number")?,
    };
    let mut bytes = named(alloc, name)?;
    bytes.truncate(count);
    Ok((bytes, Asked { what, number }, told))
}

/// Checks that a call tells of each row what the row says. Otherwise it returns a failure that names the row. A table must have a row.
pub(crate) fn every_row<F: Fn(Global, &[u8], Asked<'_>) -> Result<String, Fail>>(
    alloc: Global,
    table: &str,
    call: F,
) -> Result<(), Fail>
    requires { F.IsAlwaysCallable call }
{
    if table.trim().is_empty() {
        return Err(Fail::new("a table without rows"));
    }
    for row in table.trim().lines() {
        let (bytes, asked, wanted) = parsed(alloc, row)?;
        let told = call(alloc, bytes.as_slice(), asked)?;
        if told.as_str() != wanted {
            return Err(Fail::new(format_args!("{told} at {row}")));
        }
    }
    Ok(())
}

// Returns why nothing is cut.
fn refusal(alloc: Global, error: &PcapError) -> Result<String, AllocError> {
    match error {
        PcapError::IncompleteBuffer(missing) => format!(in alloc; "lacks {missing}"),
        PcapError::InvalidField(_) => format!(in alloc; "refused"),
        _ => format!(in alloc; "another"),
    }
}

// Returns the snapshot length of a capture, and its cuts: the place of each and the number of packets before it.
fn shown(alloc: Global, cuts: &Cuts) -> Result<String, AllocError> {
    let mut text = format!(in alloc; "{}", cuts.header.snaplen)?;
    for cut in &cuts.cuts {
        let cut = format!(in alloc; "; {} {}", cut.offset, cut.before)?;
        text.push_str(cut.as_str())?;
    }
    Ok(text)
}

// Cuts a classic capture as a row asks. Returns None if the row's word is unknown.
fn cut(alloc: Global, bytes: &[u8], asked: Asked<'_>) -> Option<ResultParsing<Cuts>> {
    match asked.what {
        "parts" => Some(cut_pcap(alloc, bytes, asked.number)),
        "least" => Some(cut_pcap_at_least(alloc, bytes, asked.number)),
        _ => None,
    }
}

// Formats the cuts of a classic capture, or why nothing is cut.
fn cuts(alloc: Global, bytes: &[u8], asked: Asked<'_>) -> Result<String, Fail> {
    let cut = cut(alloc, bytes, asked).ok_or("an unknown word")?;
    Ok(match &cut {
        Ok(cuts) => shown(alloc, cuts),
        Err(error) => refusal(alloc, error),
    }?)
}

// `parts N` asks for N parts, and `least N` for parts of at least N bytes. The result is the snapshot length of the capture, and of each
// cut its place and the number of packets before it. `lacks N` is a header that lacks N bytes.
//
// The packets of 99 bytes end after 19, 35, 56, 73 and 99 of them. A part of at least so many bytes begins where that many bytes follow the
// beginning of the part before it, if a packet follows.
const PACKETS: &str = "
    five 123 parts 0 => 4096; 24 0
    five 123 parts 1 => 4096; 24 0
    five 123 parts 2 => 4096; 24 0; 80 3
    five 123 parts 3 => 4096; 24 0; 59 2; 97 4
    five 123 parts 4 => 4096; 24 0; 59 2; 80 3
    five 123 parts 5 => 4096; 24 0; 59 2; 80 3; 97 4
    five 123 parts 6 => 4096; 24 0; 43 1; 59 2; 80 3; 97 4
    five 123 parts 7 => 4096; 24 0; 43 1; 59 2; 80 3; 97 4
    five 123 parts 8 => 4096; 24 0; 43 1; 59 2; 80 3; 97 4
    five 123 parts 9 => 4096; 24 0; 43 1; 59 2; 80 3; 97 4
    five 123 parts most => 4096; 24 0; 43 1; 59 2; 80 3; 97 4
    five 123 least 0 => 4096; 24 0; 43 1; 59 2; 80 3; 97 4
    five 123 least 1 => 4096; 24 0; 43 1; 59 2; 80 3; 97 4
    five 123 least 19 => 4096; 24 0; 43 1; 80 3
    five 123 least 20 => 4096; 24 0; 59 2; 80 3
    five 123 least 36 => 4096; 24 0; 80 3
    five 123 least 57 => 4096; 24 0; 97 4
    five 123 least 74 => 4096; 24 0
    five 123 least most => 4096; 24 0
    five 120 parts 3 => 4096; 24 0; 59 2; 97 4
    five 120 parts 9 => 4096; 24 0; 43 1; 59 2; 80 3; 97 4
    refused 123 parts 2 => 4096; 24 0; 80 3
    refused 123 parts 3 => 4096; 24 0; 59 2
    five 24 parts 0 => 4096; 24 0
    five 24 parts 1 => 4096; 24 0
    five 24 parts 2 => 4096; 24 0
    five 24 parts 3 => 4096; 24 0
    five 24 parts 4 => 4096; 24 0
    five 24 parts 5 => 4096; 24 0
    five 24 parts 6 => 4096; 24 0
    five 24 parts 7 => 4096; 24 0
    five 24 parts 8 => 4096; 24 0
    five 24 parts 9 => 4096; 24 0
    five 23 parts 2 => lacks 1
    zeros 24 parts 2 => refused
";

#[test]
fn packets(rt: HostRuntime) -> Result<(), Fail> {
    every_row(rt.alloc(), PACKETS, cuts)
}

// Returns whether a capture of `packets` packets without data is cut into as many parts.
fn is_cut_at_each(alloc: Global, packets: usize) -> Result<bool, Fail> {
    let mut bytes = Vec::from_slice(alloc, front(&LITTLE_HEAD, 24))?;
    for k in 0..packets {
        bytes.extend_from_slice(&[0; 16])?;
    }
    let cuts = cut_pcap(alloc, bytes.as_slice(), usize::MAX)?.cuts;
    Ok(cuts.len() == packets && cuts.iter().enumerate().all(|(k, cut)| cut.before == k))
}

#[test]
fn thousands_of_parts(rt: HostRuntime) -> Result<(), Fail> {
    assert!(rt; is_cut_at_each(rt.alloc(), 3000)?);
    Ok(())
}

// Returns the cuts of a PcapNg capture: of each its place, the blocks before it after the first header, the place of its header, its first
// interface and the number of interfaces.
fn shown_blocks(alloc: Global, cuts: &NgCuts) -> Result<String, AllocError> {
    let mut text = String::new(alloc);
    for cut in &cuts.cuts {
        let (at, sets) = (cut.at, (cut.header, cut.first, cut.interfaces));
        let cut = format!(in alloc;
            "; {} {} {} {} {}",
            at.offset, at.before, sets.0, sets.1, sets.2
        )?;
        text.push_str(cut.as_str())?;
    }
    Ok(text)
}

// Returns the places of the interfaces at each cut.
fn shown_places(alloc: Global, cuts: &NgCuts) -> Result<String, AllocError> {
    let mut text = String::new(alloc);
    for cut in &cuts.cuts {
        let places = format!(in alloc; "; {:?}", cuts.interfaces_at(cut))?;
        text.push_str(places.as_str())?;
    }
    Ok(text)
}

// Cuts a PcapNg capture as a row asks. Returns None if the row's word is unknown.
fn cut_blocks(alloc: Global, bytes: &[u8], asked: Asked<'_>) -> Option<ResultParsing<NgCuts>> {
    match asked.what {
        "parts" | "interfaces" | "places" => Some(cut_pcapng(alloc, bytes, asked.number)),
        "least" => Some(cut_pcapng_at_least(alloc, bytes, asked.number)),
        _ => None,
    }
}

// Formats what a row asks about the cuts of a PcapNg capture, or why nothing is cut.
fn block_cuts(alloc: Global, bytes: &[u8], asked: Asked<'_>) -> Result<String, Fail> {
    let cut = cut_blocks(alloc, bytes, asked).ok_or("an unknown word")?;
    Ok(match &cut {
        Ok(cuts) => match asked.what {
            "interfaces" => format!(in alloc; "{} {:?}", cuts.cuts.len(), cuts.interfaces),
            "places" => shown_places(alloc, cuts),
            _ => shown_blocks(alloc, cuts),
        },
        Err(error) => refusal(alloc, error),
    }?)
}

// `parts N` asks for N parts, and `least N` for parts of at least N bytes. The result has five numbers for each cut: its place, how many
// blocks after the first header come before it, the place of its section header, the index of its first interface among all, and how many
// interfaces it has. `lacks N` is a header that lacks N bytes.
//
// `interfaces N` and `places N` cut as `parts N` does, but have other results. For `interfaces` that is the number of cuts, and the places
// of all interfaces. For `places` it is the places of the interfaces of each cut.
//
// The blocks after the first header end after 20, 44, 60, 80, 112, 140, 160, 180, 220, 248, 260, 280 and 296 bytes. Where only 230 bytes
// are there, the block at 208 is truncated, so that the shares of 202 bytes end at 28 + 68 and 28 + 136. No cut comes after the block with
// a wrong second length.
const BLOCKS: &str = "
    three 324 parts 0 => ; 28 0 0 0 0
    three 324 parts 1 => ; 28 0 0 0 0
    three 324 parts 2 => ; 28 0 0 0 0; 188 7 140 2 1
    three 324 parts 3 => ; 28 0 0 0 0; 140 5 0 0 2; 248 9 140 2 1
    three 324 parts 4 => ; 28 0 0 0 0; 108 4 0 0 2; 188 7 140 2 1; 276 10 248 3 0
    three 324 parts 5 => ; 28 0 0 0 0; 88 3 0 0 1; 168 6 140 2 0; 208 8 140 2 1; 276 10 248 3 0
    three 324 parts 6 => ; 28 0 0 0 0; 88 3 0 0 1; 140 5 0 0 2; 188 7 140 2 1; 248 9 140 2 1; 288 11 248 3 0
    three 324 parts 7 => ; 28 0 0 0 0; 72 2 0 0 1; 140 5 0 0 2; 168 6 140 2 0; 208 8 140 2 1; 248 9 140 2 1; 288 11 248 3 0
    three 324 parts 8 => ; 28 0 0 0 0; 72 2 0 0 1; 108 4 0 0 2; 140 5 0 0 2; 188 7 140 2 1; 248 9 140 2 1; 276 10 248 3 0; 288 11 248 3 0
    three 324 parts 9 => ; 28 0 0 0 0; 72 2 0 0 1; 108 4 0 0 2; 140 5 0 0 2; 168 6 140 2 0; 208 8 140 2 1; 248 9 140 2 1; 276 10 248 3 0; 308 12 248 3 1
    three 324 least 45 => ; 28 0 0 0 0; 88 3 0 0 1; 140 5 0 0 2; 188 7 140 2 1; 248 9 140 2 1; 308 12 248 3 1
    three 324 least 77 => ; 28 0 0 0 0; 108 4 0 0 2; 188 7 140 2 1; 276 10 248 3 0
    three 324 least most => ; 28 0 0 0 0
    three 230 parts 3 => ; 28 0 0 0 0; 108 4 0 0 2; 168 6 140 2 0
    differs 324 parts 9 => ; 28 0 0 0 0; 72 2 0 0 1; 108 4 0 0 2
    three 28 parts 0 => ; 28 0 0 0 0
    three 28 parts 1 => ; 28 0 0 0 0
    three 28 parts 2 => ; 28 0 0 0 0
    three 28 parts 3 => ; 28 0 0 0 0
    three 28 parts 4 => ; 28 0 0 0 0
    three 28 parts 5 => ; 28 0 0 0 0
    three 28 parts 6 => ; 28 0 0 0 0
    three 28 parts 7 => ; 28 0 0 0 0
    three 28 parts 8 => ; 28 0 0 0 0
    three 28 parts 9 => ; 28 0 0 0 0
    three 27 parts 2 => lacks 1
    three 0 parts 2 => lacks 12
    zeros 28 parts 2 => refused
    three 324 interfaces most => 13 [28, 88, 168, 288]
    three 324 places 3 => ; []; [28, 88]; [168]
";

#[test]
fn blocks(rt: HostRuntime) -> Result<(), Fail> {
    every_row(rt.alloc(), BLOCKS, block_cuts)
}
