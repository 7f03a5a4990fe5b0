//! Lenient runs over whole PcapNg captures.

use crate::run_rows::RUNS;
use crate::tables::told_end;
use pcap_classic::run::pieces_fit;
use pcap_items::Rest;
use pcap_tolerant_captures::{NgRunAsIs, parse_pcapng_as_is, pieces_pcapng_as_is};
use std::alloc::Global;
use std::test::Fail;
use test_support::captures::{back, front};
use test_support::rows::{bytes, every_row, same};

// Formats the result of a run: the blocks, the first one with a flaw, and what follows the blocks.
fn told_run(alloc: Global, run: &NgRunAsIs) -> Result<String, Fail> {
    let mut text = format!(in alloc; "{} blocks, {} flawed", run.blocks.len() + 1, run.flawed())?;
    match run.first_flawed {
        None => text.push_str(", first none")?,
        Some(at) => write!(text, ", first {} at {}", at.block, at.offset)?,
    }
    write!(text, ", {} bytes, ", run.used)?;
    match &run.rest {
        Rest::Clean => text.push_str("clean")?,
        Rest::Needs(n) => write!(text, "needs {n}")?,
        Rest::Refused(error) => text.push_str(told_end(alloc, error)?.as_str())?,
    }
    Ok(text)
}

// Formats the result of the run over a capture, or why there is none.
fn told(alloc: Global, capture: &[u8]) -> Result<String, Fail> {
    match parse_pcapng_as_is(alloc, capture) {
        Ok(run) => told_run(alloc, &run),
        Err(error) => told_end(alloc, &error),
    }
}

#[test]
fn flawed_blocks_among_others(rt: HostRuntime) -> Result<(), Fail> {
    every_row(rt.alloc(), RUNS, told)
}

// Does the same for a capture that comes in these pieces.
fn told_pieces(alloc: Global, pieces: &[&[u8]]) -> Result<String, Fail> {
    if !pieces_fit(pieces) {
        return Err("too long")?;
    }
    match pieces_pcapng_as_is(alloc, pieces) {
        Ok((run, _numbers)) => told_run(alloc, &run),
        Err(error) => told_end(alloc, &error),
    }
}

// Returns the result that the run over a capture has with each byte as a piece, and for each way to cut the capture in two.
fn told_cut(alloc: Global, capture: &[u8]) -> Result<String, Fail> {
    let mut pieces: Vec<&[u8]> = Vec::new(alloc);
    for piece in capture.chunks(1) {
        pieces.push(piece)?;
    }
    let said = told_pieces(alloc, pieces.as_slice())?;
    for at in 0..=capture.len() {
        let pieces = [front(capture, at), &[], back(capture, at)];
        same(told_pieces(alloc, &pieces)?.as_str(), said.as_str())?;
    }
    Ok(said)
}

#[test]
fn every_cutting_gives_the_same(rt: HostRuntime) -> Result<(), Fail> {
    every_row(rt.alloc(), RUNS, told_cut)
}

// A section header of 28 bytes, interfaces of 20 and 28 bytes, the last with a flaw, and a packet of 36 bytes between them.
const CAPTURE: &str = "
    0a0d0d0a 0000001c 1a2b3c4d 00010000 ffffffff ffffffff 0000001c 00000001 00000014 00010000 00040000 00000014
    00000006 00000024 00000000 00000000 00000000 00000001 00000001 aa000000 00000024
    00000001 0000001c 00010000 00040000 00010001 ff000000 0000001c";

// Returns whether as many blocks after the header end before a cut as its place says, and all three in the end.
fn is_numbered(alloc: Global, capture: &[u8], at: usize) -> Result<bool, Fail> {
    let before = match at {
        0..=47 => 0,
        48..=83 => 1,
        84..=111 => 2,
        _ => 3,
    };
    let pieces = [front(capture, at), back(capture, at)];
    if !pieces_fit(&pieces) {
        return Ok(false);
    }
    let (_run, numbers) = pieces_pcapng_as_is(alloc, &pieces)?;
    Ok(numbers.as_slice() == [before, 3].as_slice())
}

#[test]
fn numbers_of_blocks(rt: HostRuntime) -> Result<(), Fail> {
    let capture = bytes(rt.alloc(), CAPTURE)?;
    for at in 0..=112 {
        assert!(rt;
            is_numbered(rt.alloc(), capture.as_slice(), at)?,
            "cut at {at}"
        );
    }
    Ok(())
}
