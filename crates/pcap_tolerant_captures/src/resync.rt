//! Resynchronization after corrupt bytes in a PcapNg capture.

ghost use Rattle.std.specs.Prelude.{◌≡◌, ◌≤◌, ◌↔◌, IsTrue, length};
ghost use Rattle.pcap_ng.specs.Frames.{framed_of};
ghost use Rattle.pcap_tolerant_captures.specs.Resync.{BlocksResync, BlocksStand, FrameRow, HasRoom, HeaderStands, SectionResyncs};
ghost use Rattle.pcap_tolerant_captures.specs.State.{order_at, state_of};

use crate::parser::PcapNgParserAsIs;
use pcap_blocks::BlockType;
use pcap_core::Endianness;
use pcap_ng::pcapng::Block;

// Returns whether a block is a section header.
fn is_header(block: &Block) -> bool
    ensures { IsTrue result ↔ (block.now.type_ ≡ BlockType.SectionHeader) }
{
    matches!(block.type_, BlockType::SectionHeader)
}

// Returns whether the body of a block has the sixteen bytes that a section header needs before its options.
fn is_long(block: &Block) -> bool
    ensures { IsTrue result ↔ (16 ≤ length (framed_of block.now).body) }
{
    block.body.as_slice().len() >= 16
}

// Returns whether a block is a section header whose body has the sixteen bytes before its options.
fn names_its_order(block: &Block) -> bool
    ensures { IsTrue result ↔ ((block.now.type_ ≡ BlockType.SectionHeader) × (16 ≤ length (framed_of block.now).body)) }
{
    is_header(block) && is_long(block)
}

// Returns whether a block is no section header, or one whose body has these sixteen bytes.
fn has_room(block: &Block) -> bool
    ensures { IsTrue result ↔ HasRoom (framed_of block.now) }
{
    !is_header(block) || is_long(block)
}

// Returns whether the slice begins with a section header whose body has these sixteen bytes.
fn header_stands(order: Endianness, slice: &[u8]) -> bool
    ensures { IsTrue result ↔ HeaderStands order slice.now }
{
    match Block::from_slice(order, slice) {
        Ok((_rest, block)) => names_its_order(&block),
        Err(_e) => false,
    }
}

// Returns whether `k` blocks follow each other from the front of the slice, or fewer, at least one, to its end.
fn frames_stand(order: Endianness, slice: &[u8], k: usize) -> bool
    ensures { IsTrue result ↔ FrameRow order k slice.now }
{
    let mut left = slice;
    let mut order_here = order;
    let mut more = k;
    while more > 0 {
        match Block::from_slice(order_here, left) {
            Ok((rest, block)) => {
                if !has_room(&block) {
                    return false;
                }
                if rest.len() == 0 {
                    return true;
                }
                left = rest;
                order_here = block.endianness();
                more -= 1;
            }
            Err(_e) => return false,
        }
    }
    true
}

// Returns whether the slice begins with a section header or with such a row of blocks.
fn stands(order: Endianness, slice: &[u8], k: usize) -> bool
    ensures { IsTrue result ↔ BlocksStand order k slice.now }
{
    header_stands(order, slice) || frames_stand(order, slice, k)
}

/// Returns the first place from which there is a section header, or from which `k` blocks follow each other whose frames break
/// no rule. Fewer blocks, at least one, are enough if they reach the end of the slice. Returns None if there is no such place.
///
/// The result is a guess, since corrupt bytes may look like blocks. Interfaces within the skipped bytes have no number.
///
/// The first block is read in the byte order of the section in force. A section header whose body is under 16 bytes doesn't
/// count.
pub fn resync(parser: &PcapNgParserAsIs, slice: &[u8], k: usize) -> Option<usize>
    ensures { BlocksResync (order_at (state_of parser.now)) k slice.now result }
{
    resync_in(parser.order(), slice, k)
}

/// Returns the place that `resync` returns in a section of this byte order.
pub fn resync_in(order: Endianness, slice: &[u8], k: usize) -> Option<usize>
    ensures { BlocksResync order k slice.now result }
{
    let mut at = 0;
    while at < slice.len() {
        if stands(order, &slice[at..], k) {
            return Some(at);
        }
        at += 1;
    }
    None
}

/// Returns the first place of a section header whose body is at least 16 bytes, or None. It is for a capture whose beginning is
/// corrupt or lost.
pub fn resync_section(slice: &[u8]) -> Option<usize>
    ensures { SectionResyncs slice.now result }
{
    let mut place = 0;
    while place < slice.len() {
        if header_stands(Endianness::Big, &slice[place..]) {
            return Some(place);
        }
        place += 1;
    }
    None
}
