//! Whole blocks that follow each other in a buffer and are written from there.

ghost use Rattle.std.specs.Prelude.{◌≡◌, ◌≤◌, ◌<◌, ◌⊎◌, ℕ, length, take};
ghost use Rattle.pcap_ng.specs.State.{is_kept};
ghost use Rattle.pcap_ng.specs.Stretches.{IsStretch, NoneBefore, Passes, PassesBlock, Sends, TearsBlock};

use crate::pcapng::fields::{split_u32_in, u32_in};
use pcap_blocks::BlockType;
use pcap_core::Endianness;
use pcap_items::stream::{Sent, Torn, put_or_tear};
use std::io::Write;

// Writes the whole blocks at the front of a buffer in one write, as they came: at most `most`, and up to a section header or an
// interface description.
pub(crate) fn put_shown<W: Write>(
    writer: &mut W,
    has_failed: &mut bool,
    order: Endianness,
    shown: &[u8],
    most: u64,
) -> Sent
    ensures within { result.used ≤ length shown.now }
    ensures sends { Sends order (take result.used shown.now) (W.contents writer.old) (W.contents writer.new) most result.items
        has_failed.old has_failed.new result.fault }
{
    let (blocks, rest) = whole_blocks(order, shown, most);
    let stretch = &shown[..shown.len() - rest.len()];
    match put_or_tear(writer, has_failed, stretch) {
        Ok(()) => Sent {
            items: blocks,
            used: stretch.len(),
            fault: None,
        },
        Err(Torn { gone, error }) => {
            let (blocks, used) = torn_block(order, stretch, gone);
            Sent {
                items: blocks,
                used,
                fault: Some(error),
            }
        }
    }
}

// Returns how many whole blocks at the front of the bytes leave what is in force unchanged, at most `most`, and what follows
// them. If there are fewer than `most`, no such block follows.
fn whole_blocks(order: Endianness, bytes: &[u8], most: u64) -> (u64, &[u8])
    ensures passes { Passes order bytes.now result.1.now result.0 }
    ensures within { result.0 ≤ most }
    ensures ends { (result.0 ≡ most) ⊎ NoneBefore order 0 result.1.now }
{
    if bytes.len() < 12 {
        return (0, bytes);
    }
    let (blocks, rest) = blocks_before_a_head(order, bytes, most);
    if blocks == most {
        return (blocks, rest);
    }
    match pass_block(order, rest, 0) {
        Some(after) => (blocks + 1, after),
        None => (blocks, rest),
    }
}

// Does the same for the blocks after each of which another head fits. Each byte order has its own loop, so the loop never tests
// the order.
fn blocks_before_a_head(order: Endianness, bytes: &[u8], most: u64) -> (u64, &[u8])
    requires { 12 ≤ length bytes.now }
    ensures passes { Passes order bytes.now result.1.now result.0 }
    ensures within { result.0 ≤ most }
    ensures head { 12 ≤ length result.1.now }
    ensures ends { (result.0 ≡ most) ⊎ NoneBefore order 12 result.1.now }
{
    match order {
        Endianness::Big => pass_blocks(Endianness::Big, bytes, most),
        Endianness::Little => pass_blocks(Endianness::Little, bytes, most),
    }
}

#[inline(always)]
fn pass_blocks(order: Endianness, bytes: &[u8], most: u64) -> (u64, &[u8])
    requires { 12 ≤ length bytes.now }
    ensures passes { Passes order bytes.now result.1.now result.0 }
    ensures within { result.0 ≤ most }
    ensures head { 12 ≤ length result.1.now }
    ensures ends { (result.0 ≡ most) ⊎ NoneBefore order 12 result.1.now }
{
    let mut left = most;
    let mut rest = bytes;
    while left > 0 {
        let Some(after) = pass_block(order, rest, 12) else {
            return (most - left, rest);
        };
        rest = after;
        left -= 1;
    }
    (most, rest)
}

// Returns how many blocks of a stretch end within `gone` bytes, and where the block after them ends.
fn torn_block(order: Endianness, stretch: &[u8], gone: usize) -> (u64, usize)
    requires stretch { (n : ℕ) × IsStretch order stretch.now n }
    requires torn { gone < length stretch.now }
    ensures { TearsBlock order stretch.now gone result.1 result.0 }
{
    let mut blocks = 0;
    let mut rest = stretch;
    while let Some(after) = pass_block(order, rest, 0) {
        let used = stretch.len() - after.len();
        if gone < used {
            return (blocks, used);
        }
        rest = after;
        blocks += 1;
    }
    (blocks, stretch.len())
}

// Returns what follows the block at the front of twelve bytes or more, if the block is whole, leaves what is in force unchanged,
// and at least `behind` bytes follow it. The function reads only the block's type and its two lengths.
#[inline(always)]
fn pass_block(order: Endianness, slice: &[u8], behind: u32) -> Option<&[u8]>
    requires { 12 ≤ length slice.now }
    ensures { PassesBlock order behind slice.now result }
{
    let (number, after_number) = split_u32_in(order, slice);
    let (len, _after) = split_u32_in(order, after_number);
    if len % 4 != 0 {
        return None;
    }
    if stays_in_force(BlockType::from(number)) {
        return None;
    }
    let used = len as usize;
    if used < 12 || slice.len() < used + behind as usize {
        return None;
    }
    let (block, rest) = slice.split_at(used);
    let (_front, trailer) = block.split_at(used - 4);
    if u32_in(order, trailer) != len {
        return None;
    }
    Some(rest)
}

// Returns whether a block of this type changes what is in force, so that its body is kept.
#[inline(always)]
fn stays_in_force(type_: BlockType) -> bool
    ensures { result ≡ is_kept type_ }
{
    match type_ {
        BlockType::SectionHeader | BlockType::InterfaceDescription => true,
        _ => false,
    }
}
