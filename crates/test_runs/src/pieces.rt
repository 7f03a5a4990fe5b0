//! Captures that come in pieces.

use pcap_file::ResultParsing;
use std::alloc::Global;

/// Cuts the bytes into pieces of these lengths, which commas separate. A dash means no piece.
pub(crate) fn cut<'a>(alloc: Global, bytes: &'a [u8], cuts: &str) -> ResultParsing<Vec<&'a [u8]>> {
    let mut pieces = Vec::new(alloc);
    let mut left = bytes;
    for length in cuts.split(',') {
        if let Ok(length) = length.parse::<usize>() {
            let (piece, after) = left.split_at(length.min(left.len()));
            pieces.push(piece)?;
            left = after;
        }
    }
    Ok(pieces)
}

/// Appends the number of items in the pieces up to each.
pub(crate) fn push_numbers(told: &mut String, numbers: &[usize]) -> ResultParsing<()> {
    write!(told, " numbers")?;
    for number in numbers {
        write!(told, " {number}")?;
    }
    Ok(())
}
