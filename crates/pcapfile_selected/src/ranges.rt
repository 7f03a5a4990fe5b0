//! The packet numbers that users give as arguments.

use pcapfile_cut::Range;
use std::alloc::{AllocError, Global};

/// Returns the ranges of a list: `10-20`, `10-` up to the end, `-20` from the first packet on, or `10` alone, separated by
/// commas. `None` if the text is no such list, or a range has no packet.
pub fn numbers(alloc: Global, text: &str) -> Result<Option<Vec<Range>>, AllocError> {
    let mut ranges = Vec::new(alloc);
    for part in text.split(',') {
        let Some(range) = packets(part) else {
            return Ok(None);
        };
        ranges.push(range)?;
    }
    Ok(Some(ranges))
}

fn packets(text: &str) -> Option<Range> {
    let (first, last) = match text.split_once('-') {
        None => (number(text)?, number(text)?),
        Some((first, "")) => (number(first)?, u64::MAX),
        Some(("", last)) => (1, number(last)?),
        Some((first, last)) => (number(first)?, number(last)?),
    };
    if first == 0 || last < first {
        return None;
    }
    Some(Range { first, last })
}

/// Returns the number that these digits make.
pub(crate) fn number(text: &str) -> Option<u64> {
    if text.is_empty() || !text.bytes().all(|byte| byte.is_ascii_digit()) {
        return None;
    }
    text.parse::<u64>().ok()
}
