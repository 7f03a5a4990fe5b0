//! Packets of a PcapNg capture whose stored length is wrong, although the lengths of their block are right.

use crate::change::Change;
use crate::in_force::InForce;
use crate::numbers::{
    DATA, ENHANCED, INTERFACE, OBSOLETE, OPTION, ORIGINAL, STORED, TRAILER, number_at,
};
use crate::packets::LIMIT;
use crate::window::Window;
use pcap_file::Endianness;
use pcap_file::pcap::PACKET_LIMIT;

/// Puts another stored length into the enhanced packet at the front of the window, whose block has this many bytes, if data of the
/// stored length and well-formed options do not fill the block. It is the original length, or the snapshot length, if that does;
/// and otherwise, if the data would go on past the block, up to the end of the block, by a guess. It is a guess too if the original
/// length is above the limit, since the numbers beside it may then be as wrong.
pub(crate) fn mend_stored<R>(
    in_force: &InForce,
    window: &mut Window<R>,
    len: usize,
) -> Option<Change> {
    let order = in_force.order();
    let bytes = window.shown().get(..len)?;
    if number_at(order, bytes, 0)? != ENHANCED {
        return None;
    }
    let stated = number_at(order, bytes, STORED)?;
    let original = number_at(order, bytes, ORIGINAL)?;
    let whole = original.min(limit(in_force, number_at(order, bytes, INTERFACE)?));
    let data = bytes.get(DATA..len.saturating_sub(TRAILER))?;
    let (length, is_guess) = length_in(order, data, stated, whole)?;
    let number = match order {
        Endianness::Big => length.to_be_bytes(),
        Endianness::Little => length.to_le_bytes(),
    };
    window.put(STORED, &number);
    Some(Change::Length {
        stated,
        length,
        is_guess: is_guess || original > PACKET_LIMIT,
    })
}

/// Returns whether the block at the front of these bytes, of this length, is an enhanced packet whose lengths are 0, without options,
/// and which has more bytes nonetheless. Such a block is what zero bytes over a packet leave.
pub(crate) fn is_zero_packet(in_force: &InForce, shown: &[u8], len: usize) -> bool {
    let bytes = shown.get(..len).unwrap_or_default();
    let front = bytes.get(STORED..DATA + OPTION).unwrap_or_default();
    number_at(in_force.order(), bytes, 0) == Some(ENHANCED)
        && len > DATA + OPTION + TRAILER
        && front.iter().all(|byte| *byte == 0)
}

/// Returns whether the block at the front of these bytes, of this length, is a packet with an original length that no packet has.
pub(crate) fn is_oversized(in_force: &InForce, shown: &[u8], len: usize) -> bool {
    let order = in_force.order();
    let bytes = shown.get(..len).unwrap_or_default();
    let holds_packet = matches!(number_at(order, bytes, 0), Some(OBSOLETE | ENHANCED));
    let original = number_at(order, bytes, ORIGINAL).unwrap_or(0);
    holds_packet && len >= DATA + TRAILER && original > LIMIT
}

/// Returns the snapshot length of an interface, or the largest number.
pub(crate) fn limit(in_force: &InForce, interface: u32) -> u32 {
    match in_force.interface(interface) {
        Some(found) if found.snaplen > 0 => found.snaplen,
        _ => u32::MAX,
    }
}

// Returns the length of the data in the rest of a body, and whether that is a guess, if the stated length is wrong and another is right.
fn length_in(order: Endianness, rest: &[u8], stated: u32, whole: u32) -> Option<(u32, bool)> {
    if fits(order, rest, stated) {
        return None;
    }
    if whole > 0 && fits(order, rest, whole) {
        return Some((whole, false));
    }
    let room = u32::try_from(rest.len()).ok()?;
    if stated <= room || whole == 0 || room == 0 {
        return None;
    }
    Some((whole.min(room), true))
}

// Returns whether data of this length, its padding, and well-formed options fill these bytes.
fn fits(order: Endianness, bytes: &[u8], length: u32) -> bool {
    let end = padded(length as usize);
    let Some(mut left) = bytes.get(end..) else {
        return false;
    };
    for _ in 0..u64::MAX {
        if left.is_empty() {
            break;
        }
        let Some(number) = number_at(order, left, 0) else {
            return false;
        };
        let (code, size) = match order {
            Endianness::Big => (number >> 16, number & 0xFFFF),
            Endianness::Little => (number & 0xFFFF, number >> 16),
        };
        if code == 0 {
            break;
        }
        let Some(more) = left.get(padded(size as usize).saturating_add(OPTION)..) else {
            return false;
        };
        left = more;
    }
    true
}

/// Returns a length with its padding to a multiple of four.
pub(crate) fn padded(length: usize) -> usize {
    length.saturating_add((4 - length % 4) % 4)
}
