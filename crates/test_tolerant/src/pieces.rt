//! Lenient reading of classic captures that come in pieces. The rows were written by hand.

use crate::copies::{TORN, whole_in};
use crate::tables::{every_call, told_end};
use pcap_classic::run::pieces_fit;
use pcap_tolerant::{HeadAsIs, OwnedAsIs, pieces_pcap_as_is};
use std::alloc::Global;
use std::test::Fail;
use test_support::captures::{back, front};
use test_support::rows::bytes;

// Returns whether a packet lends the numbers and flaws of its head, and its bytes.
fn lends(owned: &OwnedAsIs) -> bool {
    let packet = owned.packet();
    let head = HeadAsIs {
        ts_sec: packet.ts_sec,
        fraction: packet.fraction,
        incl_len: packet.incl_len,
        orig_len: packet.orig_len,
        flaws: packet.flaws,
    };
    head == owned.head && packet.data == owned.data.as_slice()
}

// Formats the result of the run over these pieces under a limit, and how many packets end in each piece and those before it. It returns a
// failure if a packet lends something else than it holds.
fn told(alloc: Global, pieces: &[&[u8]], limit: u32) -> Result<String, Fail> {
    if !pieces_fit(pieces) {
        return Err("too long")?;
    }
    match pieces_pcap_as_is(alloc, pieces, limit) {
        Ok((run, numbers)) => {
            if !run.packets.iter().all(lends) {
                return Err("a packet lends something else")?;
            }
            let (packets, used, rest) = (&run.packets, run.used, &run.rest);
            Ok(format!(in alloc; "{numbers:?} {packets:?}, {used} bytes, {rest:?}")?)
        }
        Err(error) => told_end(alloc, &error),
    }
}

// The packets of the torn capture, and the rest.
const PACKETS: &str =
    "[OwnedAsIs { head: HeadAsIs { ts_sec: 1, fraction: 2, incl_len: 1, orig_len: 1, flaws: Flaws { fraction_too_large: false, included_too_long: false, original_too_long: false, included_past_original: false } }, data: [170] }, OwnedAsIs { head: HeadAsIs { ts_sec: 1, fraction: 2, incl_len: 1, orig_len: 0, flaws: Flaws { fraction_too_large: false, included_too_long: false, original_too_long: false, included_past_original: true } }, data: [187] }, OwnedAsIs { head: HeadAsIs { ts_sec: 1, fraction: 2, incl_len: 0, orig_len: 0, flaws: Flaws { fraction_too_large: false, included_too_long: false, original_too_long: false, included_past_original: false } }, data: [] }, OwnedAsIs { head: HeadAsIs { ts_sec: 1, fraction: 5000000, incl_len: 0, orig_len: 0, flaws: Flaws { fraction_too_large: true, included_too_long: false, original_too_long: false, included_past_original: false } }, data: [] }], 90 bytes, Needs(15)";

// Returns whether the three pieces between two cuts of the torn capture give its packets, each in the piece with its last byte.
fn are_packets(alloc: Global, capture: &[u8], cuts: (usize, usize)) -> Result<bool, Fail> {
    let (first, second) = cuts;
    let pieces = [
        front(capture, first),
        back(front(capture, second), first),
        back(capture, second),
    ];
    let told = told(alloc, &pieces, 0)?;
    let numbers = (whole_in(first), whole_in(second));
    let wanted = format!(in alloc; "[{}, {}, 4] {PACKETS}", numbers.0, numbers.1)?;
    Ok(told.as_str() == wanted.as_str())
}

#[test]
fn every_cutting_gives_the_same(rt: HostRuntime) -> Result<(), Fail> {
    let capture = bytes(rt.alloc(), TORN)?;
    for first in 0..=91 {
        for second in first..=91 {
            assert!(rt;
                are_packets(rt.alloc(), capture.as_slice(), (first, second))?,
                "cut at {first} and {second}"
            );
        }
    }
    Ok(())
}

// A limit, the lengths of pieces, and the result of the run over them.
const PIECES: &str = r#"
    // a stored length above the limit, and one at the limit
    262144 in 30 10: a1b2c3d4 00020004 00000000 00000000 0000ffff 00000001  00000001 00000002 00040001 00040001 => [0, 0] [], 24 bytes, Refused(InvalidField("PacketHeader incl_len > 0x40000"))
    262145 in 30 10: a1b2c3d4 00020004 00000000 00000000 0000ffff 00000001  00000001 00000002 00040001 00040001 => [0, 0] [], 24 bytes, Needs(262145)
    // no piece, an empty one, and truncated and malformed headers
    0 in => needs 24
    0 in 0 => needs 24
    0 in 3 0 1: a1b2c3 d4 => needs 20
    0 in 30 9: ffffffffffffffffffffffffffffffffffffffffffffffffffffffffffff 000000000000000000 => invalid PcapHeader wrong magic number
"#;

// Formats the result of the run over these bytes under the limit and in the pieces that the words name.
fn told_pieces(alloc: Global, words: &str, given: &[u8]) -> Result<String, Fail> {
    let (limit, lengths) = words.split_once(" in").ok_or("a limit")?;
    let limit = limit.parse::<u32>().ok().ok_or("a limit")?;
    let mut pieces = Vec::new(alloc);
    let mut left = given;
    for length in lengths.split_whitespace() {
        let length = length.parse::<usize>().ok().ok_or("a length")?;
        pieces.push(front(left, length))?;
        left = back(left, length);
    }
    told(alloc, pieces.as_slice(), limit)
}

#[test]
fn limits_and_headers(rt: HostRuntime) -> Result<(), Fail> {
    every_call(rt.alloc(), PIECES, told_pieces)
}
