//! The places at which blocks go on after corrupt bytes.

ghost use Rattle.std.specs.Prelude.{◌<◌, ◌≤◌, ◌-◌, ◌↔◌, IsTrue, MatchOption, length};
ghost use Rattle.pcap_tolerant_captures.specs.Places.{BeginsKnown, FindsBlocks, IsInside, IsKnown, NoneInside};

use crate::resync::resync_in;
use pcap_blocks::BlockType;
use pcap_core::Endianness;
use pcap_ng::pcapng::Block;

/// The number of blocks without a fault in a row that resynchronization needs.
const IN_A_ROW: usize = 2;

/// Returns the first place at which a section header is or two blocks follow each other. One block is enough if it reaches the end of the
/// bytes. If the first of them has an unknown type, and inside it is a place with a block of a known type, the result is that place.
///
/// A byte beside its place, a block seems to have another type and 256 times its length, and 256 blocks of one length seem to be one.
pub fn first_blocks(order: Endianness, bytes: &[u8]) -> Option<usize>
    ensures { FindsBlocks order bytes.now result }
{
    let Some(first) = resync_in(order, bytes, IN_A_ROW) else {
        return None;
    };
    match Block::from_slice(order, &bytes[first..]) {
        Ok((_behind, block)) if is_known(&block) => Some(first),
        Ok((behind, _block)) => match first_inside(order, bytes, first, behind.len()) {
            Some(found) => Some(found),
            None => Some(first),
        },
        Err(_error) => None,
    }
}

// Returns the first place inside the block at `first` at which blocks go on with one of a known type. `left` bytes follow the block.
fn first_inside(order: Endianness, bytes: &[u8], first: usize, left: usize) -> Option<usize>
    requires inside { first < length bytes.now }
    requires left { left ≤ length bytes.now }
    ensures { MatchOption result (NoneInside order bytes.now first (length bytes.now - left)) (λ found. IsInside order bytes.now first left found) }
{
    let end = bytes.len() - left;
    let mut place = first + 1;
    while place < end {
        match resync_in(order, &bytes[place..], IN_A_ROW) {
            Some(skipped) => place += skipped,
            None => return None,
        }
        if place < end && begins_known(order, &bytes[place..]) {
            return Some(place);
        }
        place += 1;
    }
    None
}

// Returns whether the slice begins with a block of a known type.
fn begins_known(order: Endianness, slice: &[u8]) -> bool
    ensures { IsTrue result ↔ BeginsKnown order slice.now }
{
    match Block::from_slice(order, slice) {
        Ok((_rest, block)) => is_known(&block),
        Err(_error) => false,
    }
}

// Returns whether a block has a known type.
fn is_known(block: &Block<'_>) -> bool
    ensures { IsTrue result ↔ IsKnown block.now.type_ }
{
    !matches!(block.type_, BlockType::Unknown(_))
}
