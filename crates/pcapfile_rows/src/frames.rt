//! Blocks of a damaged PcapNg capture, one of whose two lengths is wrong.

use crate::change::Change;
use crate::numbers::{LENGTH, SHORTEST, number_at};
use crate::window::Window;
use pcap_file::Endianness;
use pcap_tolerant_captures::first_blocks;
use std::io;
use std::io::BufRead;

/// Puts the right length into the block at the front of the window, if one of its two lengths says where the next blocks begin.
pub(crate) fn mend_frame<R: BufRead>(
    order: Endianness,
    window: &mut Window<R>,
) -> io::Result<Option<Change>> {
    let sure = window.reach_row()?;
    let bytes = window.shown();
    let behind = bytes.get(SHORTEST..).unwrap_or_default();
    let len = match first_blocks(order, behind) {
        Some(found) => found.saturating_add(SHORTEST),
        None => bytes.len(),
    };
    if len > sure || len % 4 != 0 {
        return Ok(None);
    }
    let last = len.saturating_sub(LENGTH);
    let (Some(before), Some(after)) = (
        number_at(order, bytes, LENGTH),
        number_at(order, bytes, last),
    ) else {
        return Ok(None);
    };
    let Some(length) = u32::try_from(len).ok() else {
        return Ok(None);
    };
    let stated = match (before == length, after == length) {
        (true, false) => after,
        (false, true) => before,
        _ => return Ok(None),
    };
    let number = match order {
        Endianness::Big => length.to_be_bytes(),
        Endianness::Little => length.to_le_bytes(),
    };
    window.put(LENGTH, &number);
    window.put(last, &number);
    Ok(Some(Change::Length {
        stated,
        length,
        is_guess: false,
    }))
}
