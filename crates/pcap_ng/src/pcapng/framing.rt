//! The frames of blocks: their heads, and what the heads say about the bytes after them.

ghost use Rattle.std.specs.Prelude.{◌≡◌, ◌≤◌, length};
ghost use Rattle.pcap_items.specs.Filling.{Stated, TellsSettled};
ghost use Rattle.pcap_ng.specs.Frames.{framed_of, own_order, frame_format};
ghost use Rattle.pcap_ng.specs.StatedFrames.{HeadTells, KnowsFrame};

use crate::pcapng::block::Block;
use crate::pcapng::fields::{split_u32_in, u32_in};
use byteorder::BigEndian;
use pcap_core::fields::split_u32;
use pcap_core::rules::Rule;
use pcap_core::{Endianness, ResultParsing};
use pcap_items::stream::HasHead;

/// The format of blocks in their frames, in this byte order if they are not section headers.
#[derive(Clone, Copy)]
pub(crate) struct FramesIn {
    pub(crate) order: Endianness,
}

/// The first twelve bytes of a frame: its type number, the byte order of its numbers, and its length.
#[derive(Clone, Copy)]
pub(crate) struct FrameHead {
    pub(crate) number: u32,
    pub(crate) endianness: Endianness,
    pub(crate) len: u32,
}

impl HasHead for FramesIn {
    ghost use Rattle.pcap_ng.specs.Frames.{Framed};
    ghost use Rattle.pcap_core.specs.declared.common.Endianness.{Endianness};

    type Head = FrameHead;

    ghost State = { Endianness };

    ghost Value = { Framed };

    ghost format = { λ frames. frame_format };

    ghost state = { λ frames. frames.order };

    ghost knows = { λ frames head n bytes. KnowsFrame frames.order head n bytes };

    #[tactic(auto, unfolding(crate::specs::Frames::frame_format))]
    fn head(&self) -> usize {
        12
    }

    fn stated(&self, bytes: &[u8]) -> ResultParsing<(FrameHead, usize)> {
        let (head, _after) = split_head(self.order, bytes)?;
        Ok((head, head.len as usize - 12))
    }
}

impl FramesIn {
    // Returns the block of this head in the bytes, lent from them.
    pub(crate) fn block<'a>(&self, head: FrameHead, bytes: &'a [u8]) -> ResultParsing<Block<'a>>
        requires { Stated (KnowsFrame self.now.order) (frame_format.head self.now.order) head bytes.now }
        ensures { TellsSettled (frame_format.says self.now.order bytes.now) framed_of result }
    {
        let (_front, after) = bytes.split_at(8);
        let (_rest, block) = Block::of_head(head, after)?;
        Ok(block)
    }
}

// Returns the byte order of a block with this type number, if this magic number follows its length.
#[tactic(auto, unfolding(crate::specs::Frames::own_order, pcap_blocks::specs::SectionHeader::magic_order))]
fn order_of(order: Endianness, number: u32, magic: u32) -> Option<Endianness>
    ensures { result ≡ own_order order number magic }
{
    if number != 0x0A0D0D0A {
        return Some(order);
    }
    match magic {
        0x1A2B3C4D => Some(Endianness::Big),
        0x4D3C2B1A => Some(Endianness::Little),
        _ => None,
    }
}

// Returns the head at the front of twelve bytes or more, and what follows its length.
pub(crate) fn split_head(order: Endianness, slice: &[u8]) -> Result<(FrameHead, &[u8]), Rule>
    requires { 12 ≤ length slice.now }
    ensures { HeadTells order slice.now result }
{
    let (number, after_number) = split_u32_in(order, slice);
    let (len_bytes, after) = after_number.split_at(4);
    let (magic, _more) = split_u32::<BigEndian>(after);
    let Some(endianness) = order_of(order, number, magic) else {
        return Err(Rule::SectionMagic);
    };
    let len = u32_in(endianness, len_bytes);
    if len % 4 != 0 {
        return Err(Rule::BlockUnaligned);
    }
    if len < 12 {
        return Err(Rule::BlockTooShort);
    }
    let head = FrameHead {
        number,
        endianness,
        len,
    };
    Ok((head, after))
}
