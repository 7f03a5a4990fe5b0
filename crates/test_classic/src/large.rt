//! A capture of many packets, the last of them the largest that a capture may have. No limit cuts it short.

use crate::calls::every_row;
use crate::captures::capture_of;
use pcap_classic::pcap::Packet;
use pcap_classic::run::{PcapRun, Rest, Window, exact_pcap, parse_pcap, pieces_pcap, read_pcap};
use std::alloc::Global;
use std::test::Fail;
use test_support::readers::Halting;

// Returns whether these are 2000 packets before the largest one.
fn is_all(packets: &[Packet]) -> bool {
    let last = match packets.last() {
        None => 0,
        Some(packet) => packet.data_.len(),
    };
    packets.len() == 2001 && last == 262_144
}

fn is_run(run: &PcapRun) -> bool {
    is_all(run.packets.as_slice()) && run.used == 326_184 && matches!(run.rest, Rest::Clean)
}

// Returns whether the runs over these bytes, in one piece and on requests, parse the whole capture.
fn parses(alloc: Global, all: &[u8]) -> bool {
    matches!(&parse_pcap(alloc, all), Ok(run) if is_run(run))
}

fn parses_on_requests(alloc: Global, all: &[u8]) -> bool {
    matches!(&exact_pcap(alloc, &mut Window::new(all)), Ok((run, _)) if is_run(run))
}

fn parses_pieces(alloc: Global, all: &[u8]) -> bool {
    matches!(&pieces_pcap(alloc, &[all]), Ok((run, _)) if is_run(run))
}

// Returns whether a stream of these bytes is read to its end.
fn reads(alloc: Global, all: &[u8]) -> bool {
    let Ok(stream) = Halting::new(alloc, all, 1_000_000) else {
        return false;
    };
    match &read_pcap(alloc, stream, 3000) {
        Ok(read) => is_all(read.packets.as_slice()) && read.fault.is_none(),
        Err(_) => false,
    }
}

// Returns whether all these calls give the whole capture.
fn comes_by_each(alloc: Global) -> bool {
    let Some(whole) = capture_of(alloc, "large") else {
        return false;
    };
    let all = whole.as_slice();
    parses(alloc, all)
        && parses_on_requests(alloc, all)
        && parses_pieces(alloc, all)
        && reads(alloc, all)
}

#[test]
fn runs(rt: HostRuntime) {
    assert!(rt; comes_by_each(rt.alloc()));
}

#[test]
fn copies(rt: HostRuntime) -> Result<(), Fail> {
    let row =
        "0 65536: copy given=large step=1000000 buffer=n room=400000 width=400000 most=3000 => 2001 end, large 326184";
    every_row(rt.alloc(), row)
}
