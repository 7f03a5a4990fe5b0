//! The last block of a truncated PcapNg capture, which may have all of its packet.

use crate::in_force::InForce;
use crate::numbers::{
    DATA, ENHANCED, HEAD, LENGTH, OBSOLETE, OPTION, SIMPLE, SIMPLE_DATA, STORED, TRAILER, number_at,
};
use crate::stored::{limit, padded};
use pcap_file::Endianness;
use pcap_tolerant_captures::first_blocks;
use pcapfile_mended::complete;
use std::alloc::{AllocError, Global};

/// Returns the whole text of the packet block that these last bytes of an input begin, if the input ends behind the packet's data.
/// `None` if the bytes speak against that.
pub(crate) fn complete_last(
    alloc: Global,
    in_force: &InForce,
    bytes: &[u8],
) -> Result<Option<Vec<u8>>, AllocError> {
    let order = in_force.order();
    let most = limit(in_force, 0);
    if is_cut_off(order, most, bytes).is_none() {
        return Ok(None);
    }
    let mut body = Vec::new(alloc);
    let mut text = Vec::new(alloc);
    if complete(order, most, bytes, &mut body, &mut text)? {
        return Ok(Some(text));
    }
    Ok(None)
}

// Returns a value if nothing speaks against these bytes as the beginning of a packet block whose end is cut off. What follows the data
// must be padding, options and the beginning of the last length. There must be no blocks in a row behind the data.
fn is_cut_off(order: Endianness, most: u32, bytes: &[u8]) -> Option<()> {
    let type_ = number_at(order, bytes, 0)?;
    let end = data_end(order, type_, most, bytes)?;
    let stated = number_at(order, bytes, LENGTH)? as usize;
    let trailer = bytes.get(LENGTH..HEAD)?;
    if bytes.ends_with(trailer) {
        return None;
    }
    let behind = bytes.get(end..)?;
    let from = padded(end);
    let last = stated.checked_sub(TRAILER)?;
    let room = last.checked_sub(from)?;
    if type_ == SIMPLE && room > 0 {
        return None;
    }
    if first_blocks(order, behind).is_some() {
        return None;
    }
    let options = bytes.get(from..last.min(bytes.len())).unwrap_or_default();
    let is_end = trailer.starts_with(bytes.get(last..).unwrap_or_default());
    if is_end && begin_options(order, options, room) {
        return Some(());
    }
    None
}

// Returns the offset of the end of a packet's data in its block.
fn data_end(order: Endianness, type_: u32, most: u32, bytes: &[u8]) -> Option<usize> {
    match type_ {
        SIMPLE => {
            let original = number_at(order, bytes, HEAD)?;
            Some((original.min(most) as usize).saturating_add(SIMPLE_DATA))
        }
        OBSOLETE | ENHANCED => Some(
            (number_at(order, bytes, STORED)? as usize).saturating_add(DATA),
        ),
        _ => None,
    }
}

// Returns whether these bytes begin options that fill this room.
fn begin_options(order: Endianness, bytes: &[u8], room: usize) -> bool {
    let mut left = bytes;
    let mut room_left = room;
    for _ in 0..u64::MAX {
        let Some(number) = number_at(order, left, 0) else {
            break;
        };
        let (code, size) = match order {
            Endianness::Big => (number >> 16, number & 0xFFFF),
            Endianness::Little => (number & 0xFFFF, number >> 16),
        };
        if code == 0 {
            return true;
        }
        let len = padded(size as usize).saturating_add(OPTION);
        let Some(more) = room_left.checked_sub(len) else {
            return false;
        };
        room_left = more;
        left = left.get(len..).unwrap_or_default();
    }
    left.len() <= room_left
}
