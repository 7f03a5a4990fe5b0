//! Calls on a classic capture that comes in pieces.

use pcap_classic::ResultParsing;
use pcap_classic::run::{pieces_fit, pieces_pcap};
use std::alloc::Global;

// Returns the sum over the runs of all passes, or None if no call has this name. The pieces are made once, before the passes.
pub(crate) fn passes_of(
    alloc: Global,
    call: &str,
    passes: u64,
    bytes: &[u8],
) -> Option<ResultParsing<u64>> {
    match call {
        "one_piece" => Some(fed(alloc, passes, bytes, usize::MAX)),
        "pieces_of_one" => Some(fed(alloc, passes, bytes, 1)),
        _ => None,
    }
}

fn cut(alloc: Global, bytes: &[u8], size: usize) -> ResultParsing<Vec<&[u8]>> {
    let mut pieces = Vec::new(alloc);
    for piece in bytes.chunks(size.max(1)) {
        pieces.push(piece)?;
    }
    Ok(pieces)
}

fn fed(alloc: Global, passes: u64, bytes: &[u8], size: usize) -> ResultParsing<u64> {
    let pieces = cut(alloc, bytes, size)?;
    let mut sum = 0u64;
    if !pieces_fit(&pieces) {
        return Ok(sum);
    }
    for _ in 0..passes {
        let (run, numbers) = pieces_pcap(alloc, &pieces)?;
        let last = numbers.last().copied().unwrap_or(0);
        sum = sum
            .wrapping_add(run.used as u64)
            .wrapping_add(run.packets.len() as u64)
            .wrapping_add(last as u64);
    }
    Ok(sum)
}
