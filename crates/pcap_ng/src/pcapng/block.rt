//! Blocks in their frames.

ghost use Rattle.std.specs.Prelude.{◌≡◌, ◌≤◌, ◌+◌, length, IsOk, IfOk, IfErr};
ghost use Rattle.pcap_core.specs.Answer.{Tells, TellsWhere, number_in};
ghost use Rattle.pcap_core.specs.Bytes.{IsBorrowed, IsOwned};
ghost use Rattle.pcap_core.specs.Errors.{IsMemory};
ghost use Rattle.pcap_blocks.specs.ParsedBlock.{BodySays, BodyMayGrow, body_of, ParsedIsBorrowed};
ghost use Rattle.pcap_ng.specs.Bodies.{GrowsInBody, ParsesWhere, SaysOfBody};
ghost use Rattle.pcap_ng.specs.Frames.{framed_of, FrameSays};
ghost use Rattle.pcap_ng.specs.StatedFrames.{TailTells};

use crate::pcapng::fields::split_u32_in;
use crate::pcapng::framing::{FrameHead, split_head};
use byteorder::{BigEndian, LittleEndian};
use pcap_blocks::{BlockType, ParsedBlock};
use pcap_core::rules::Rule;
use pcap_core::{CowBytes, Endianness, PcapError, ResultParsing};
use pcap_written::{RawBlock, RawPcapNgBlock};
use std::alloc::Global;

/// A block in its frame, whose body is still bytes; `parsed` reads the body.
#[derive(Clone, Debug, Drop)]
pub struct Block<'a> {
    /// The type of the block, which determines how the body is read.
    pub type_: BlockType,
    /// The length of the whole block in bytes, from the field before the body.
    pub initial_len: u32,
    /// The bytes of the body.
    pub body: CowBytes<'a>,
    /// The length of the whole block in bytes, from the field after the body.
    pub trailer_len: u32,
    pub(crate) endianness: Endianness,
}

impl<'a> Block<'a> {
    /// Returns the byte order of the block's numbers. A section header names its own; any other block has the order of its
    /// section.
    pub fn endianness(&self) -> Endianness
        ensures { result ≡ (framed_of self.now).endianness }
    {
        self.endianness
    }

    /// Returns the same block with an owned body: a borrowed body is copied, an owned one is kept.
    ///
    /// Returns `OutOfMemory` if the copy can't be made; the block is then dropped.
    pub fn into_owned(self, alloc: Global) -> ResultParsing<Block<'static>>
        ensures same { IfOk result (λ kept. framed_of kept ≡ framed_of self.entry) }
        ensures owned { IfOk result (λ kept. IsOwned kept.body) }
        ensures memory { IfErr result IsMemory }
        ensures kept { IsOwned self.entry.body → IsOk result }
    {
        let Block {
            type_,
            initial_len,
            body,
            trailer_len,
            endianness,
        } = self;
        Ok(Block {
            type_,
            initial_len,
            body: body.into_owned(alloc)?,
            trailer_len,
            endianness,
        })
    }

    /// Parses the body by the block's type, in the block's own byte order. Bytes after the parsed value are ignored.
    ///
    /// Returns the errors of `from_slice` for this type's body: `InvalidField` for the first rule that it breaks, `Utf8Error` for
    /// a string that isn't UTF-8, `IoError` for a value that is too short. Returns `OutOfMemory` if the body has options or
    /// records and their list can't grow.
    pub fn parsed(&self, alloc: Global) -> ResultParsing<ParsedBlock<'_>>
        ensures tells { ParsesWhere (GrowsInBody (framed_of self.now)) (SaysOfBody (framed_of self.now)) body_of result }
        ensures borrowed { IfOk result ParsedIsBorrowed }
    {
        let (_rest, parsed) = parsed_in(self.endianness, alloc, self.type_, self.body.as_slice())?;
        Ok(parsed)
    }

    /// Parses the frame of the block at the front of a slice, and returns the bytes after the block and the block. `order` is the
    /// byte order if the block is not a section header. The body is borrowed from the slice and isn't parsed.
    ///
    /// Returns `IncompleteBuffer` if bytes of the first 12, or then of the whole block, are missing. Returns `InvalidField` for
    /// the first rule that the frame breaks.
    pub fn from_slice(order: Endianness, slice: &'a [u8]) -> ResultParsing<(&'a [u8], Block<'a>)>
        ensures tells { Tells (FrameSays order slice.now) framed_of result }
        ensures borrowed { IfOk result (λ x. IsBorrowed x.1.body) }
    {
        if slice.len() < 12 {
            return Err(PcapError::IncompleteBuffer(12 - slice.len()));
        }
        let (head, after) = split_head(order, slice)?;
        let len = head.len as usize;
        if slice.len() < len {
            return Err(PcapError::IncompleteBuffer(len - slice.len()));
        }
        Ok(Block::of_head(head, after)?)
    }

    // Returns the block with this head, from the bytes after its first length, and what follows the block.
    pub(crate) fn of_head(head: FrameHead, after: &'a [u8]) -> Result<(&'a [u8], Block<'a>), Rule>
        requires long { 12 ≤ head.len }
        requires whole { head.len ≤ 8 + length after.now }
        ensures tells { TailTells head after.now result }
        ensures borrowed { IfOk result (λ x. IsBorrowed x.1.body) }
    {
        let (body, after_body) = after.split_at(head.len as usize - 12);
        let (trailer_len, rest) = split_u32_in(head.endianness, after_body);
        if trailer_len != head.len {
            return Err(Rule::BlockLengthsDiffer);
        }
        let block = Block {
            type_: BlockType::from(head.number),
            initial_len: head.len,
            body: CowBytes::Borrowed(body),
            trailer_len,
            endianness: head.endianness,
        };
        Ok((rest, block))
    }
}

impl<'a> RawPcapNgBlock for Block<'a> {
    ghost use Rattle.pcap_ng.specs.Frames.{framed_of};
    ghost use Rattle.pcap_ng.specs.RawBlocks.{raw_in};

    ghost shows = { λ block. raw_in (framed_of block) };

    fn raw(&self) -> RawBlock<'_> {
        RawBlock {
            type_: self.type_,
            endianness: self.endianness,
            body: self.body.as_slice(),
        }
    }
}

// Parses the body of a block of this type, in this byte order, and returns what follows it too.
fn parsed_in<'a>(
    order: Endianness,
    alloc: Global,
    type_: BlockType,
    slice: &'a [u8],
) -> ResultParsing<(&'a [u8], ParsedBlock<'a>)>
    ensures tells { TellsWhere (BodyMayGrow (number_in order) type_ slice.now) (BodySays (number_in order) type_ slice.now) body_of result }
    ensures borrowed { IfOk result (λ x. ParsedIsBorrowed x.1) }
{
    match order {
        Endianness::Big => ParsedBlock::from_slice::<BigEndian>(alloc, type_, slice),
        Endianness::Little => ParsedBlock::from_slice::<LittleEndian>(alloc, type_, slice),
    }
}
