//! Counts how often a check reads its input, and how often a cut writes its output.

use crate::captures::bytes_of;
use pcapfile_cut::{Changes, Opening, Range, Selection, Wanted, cut_part};
use pcapfile_run::{check_blocks, check_packets};
use std::alloc::Global;
use std::io::BufReader;
use std::test::*;
use test_support::readers::Halting;
use test_support::writers::Narrow;

// Returns whether a check of the packets or blocks of this capture succeeds, and reads its input once at the end.
fn checks(alloc: Global, capture: &str, has_blocks: bool) -> Result<bool, Fail> {
    let mut input = Halting::new(alloc, bytes_of(alloc, capture)?.as_slice(), 7)?;
    let buffered = BufReader::with_capacity(alloc, 7, &mut input)?;
    let checked = if has_blocks {
        check_blocks(alloc, buffered)
    } else {
        check_packets(alloc, buffered)
    };
    Ok(checked.status() == 0 && input.ends == 1)
}

#[test]
fn one_end_is_enough(rt: HostRuntime) -> Result<(), Fail> {
    assert!(rt; checks(rt.alloc(), "little", false)?, "packets");
    assert!(rt; checks(rt.alloc(), "sections", true)?, "blocks");
    Ok(())
}

/// A capture of six packets without data, whose seconds are 0, 1, 0, 1, 0 and 1.
const SIX_PACKETS: &str = "d4c3b2a1 02000400 00000000 00000000 00100000 01000000
    00000000 00000000 00000000 00000000 01000000 00000000 00000000 00000000
    00000000 00000000 00000000 00000000 01000000 00000000 00000000 00000000
    00000000 00000000 00000000 00000000 01000000 00000000 00000000 00000000";

// Returns whether a cut of the packets of second 1 writes these, calls its output this often, and finds no more input once.
fn cuts(alloc: Global, calls: u64) -> Result<bool, Fail> {
    let mut input = Halting::new(alloc, bytes_of(alloc, SIX_PACKETS)?.as_slice(), 65536)?;
    let mut output = Narrow::new(alloc, 1000, false);
    let opening = Opening::read(&mut input, &mut false)?;
    let selection = Selection {
        numbers: &[Range::ALL],
        from: 1_000_000_000,
        until: 2_000_000_000,
        lengths: Range::ALL,
        filter: None,
        dedup: 0,
        changes: Changes::NONE,
    };
    let wanted = Wanted::Selected(&selection);
    let outcome = cut_part(alloc, &opening, &mut input, &mut output, wanted);
    let is_whole = outcome.fault.is_none() && output.out.len() == 24 + 3 * 16;
    Ok(is_whole && output.calls == calls && input.ends == 1)
}

#[test]
fn a_cut_writes_its_header_and_each_packet(rt: HostRuntime) -> Result<(), Fail> {
    assert!(rt; cuts(rt.alloc(), 4)?);
    Ok(())
}
