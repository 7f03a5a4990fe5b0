//! Blocks whose packets are written with at most a number of their bytes.

ghost use Rattle.std.specs.Prelude.{◌≡◌, ◌++◌, IfOk, OnOk, MatchOption};
ghost use Rattle.pcap_core.specs.Answer.{number_in};
ghost use Rattle.pcap_core.specs.Codec.{number_bytes};
ghost use Rattle.pcap_written.specs.Raw.{raw_of};
ghost use Rattle.pcap_written.specs.Text.{padding};
ghost use Rattle.pcapfile_cut.specs.ShortBlocks.{HasNoRoom, NotesFailure, PartedText, PutsShortened, Shortens, ShortensIn, parted, short_body};

use crate::changing::front_of;
use byteorder::{BigEndian, ByteOrder, LittleEndian};
use pcap_blocks::BlockType;
use pcap_core::fields::{split_padded, split_u32};
use pcap_core::{Endianness, ResultParsing};
use pcap_items::stream::put;
use pcap_written::{RawBlock, frame};
use std::alloc::{AllocError, Global};
use std::io::Write;

/// The longest body of a block whose length fits 32 bits, in bytes.
pub(crate) const LONGEST_BODY: usize = 4_294_967_283;

/// The result of shortening the packet of a block.
#[derive(Clone, Copy, Debug, PartialEq, Eq)]
pub enum Shortened {
    /// The packet has more bytes, and the text is that of the block with the first ones.
    Changed,
    /// The packet has no more bytes, or the block states no stored length of a packet.
    Stays,
    /// The body has no room for the bytes of the packet that it states.
    Malformed,
}

// The parts of a packet's body: what precedes its lengths, its original length, its data, and its options.
#[derive(Clone, Copy)]
pub(crate) struct Parts<'a> {
    pub(crate) front: &'a [u8],
    pub(crate) original: &'a [u8],
    pub(crate) bytes: &'a [u8],
    pub(crate) options: &'a [u8],
}

// Returns the parts of a packet's body. None if the body is too short for its numbers, or for the data.
fn split_parts<B: ByteOrder>(body: &[u8]) -> Option<Parts<'_>>
    ensures { MatchOption result (HasNoRoom B.number_of body.now) (λ parts. PartedText B.number_of (parted parts) body.now) }
{
    if body.len() < 20 {
        return None;
    }
    let (front, rest) = body.split_at(12);
    let (captured, rest) = split_u32::<B>(rest);
    let (original, rest) = rest.split_at(4);
    let (bytes, options) = split_padded(rest, captured as usize)?;
    Some(Parts {
        front,
        original,
        bytes,
        options,
    })
}

// Appends a number of four bytes.
pub(crate) fn put_u32<B: ByteOrder>(out: &mut Vec<u8>, n: u32) -> Result<(), AllocError>
    ensures { OnOk result (out.new.items ≡ out.old.items ++ B.bytes_of 4 n) }
{
    let mut bytes = [0; 4];
    B::write_u32(&mut bytes, n);
    out.extend_from_slice(&bytes)
}

// Appends zero bytes after `len` others, up to the next multiple of 4.
fn put_padding(out: &mut Vec<u8>, len: usize) -> Result<(), AllocError>
    ensures { OnOk result (out.new.items ≡ out.old.items ++ padding len) }
{
    let missing = (4 - len % 4) % 4;
    let zeros = [0; 3];
    out.extend_from_slice(&zeros[..missing])
}

// Replaces `body` by a packet's body with this many of its bytes.
fn put_short_body<B: ByteOrder>(
    parts: Parts<'_>,
    most: u32,
    body: &mut Vec<u8>,
) -> Result<(), AllocError>
    ensures { OnOk result (body.new.items ≡ short_body B.bytes_of most (parted parts.entry)) }
{
    let bytes = front_of(parts.bytes, most);
    body.clear();
    body.extend_from_slice(parts.front)?;
    put_u32::<B>(body, most)?;
    body.extend_from_slice(parts.original)?;
    body.extend_from_slice(bytes)?;
    put_padding(body, bytes.len())?;
    body.extend_from_slice(parts.options)
}

// Shortens the packet of a block whose body states how many bytes are stored, in this byte order.
fn shorten_in<B: ByteOrder>(
    block: RawBlock<'_>,
    most: u32,
    body: &mut Vec<u8>,
    text: &mut Vec<u8>,
) -> Result<Shortened, AllocError>
    ensures { IfOk result (ShortensIn B.number_of B.bytes_of most (raw_of block.entry) text.new.items) }
{
    let Some(parts) = split_parts::<B>(block.body) else {
        return Ok(Shortened::Malformed);
    };
    if parts.bytes.len() <= most as usize {
        return Ok(Shortened::Stays);
    }
    put_short_body::<B>(parts, most, body)?;
    if body.len() > LONGEST_BODY {
        return Err(AllocError);
    }
    let body = body.as_slice();
    frame(text, RawBlock { body, ..block })?;
    Ok(Shortened::Changed)
}

// Shortens the packet of a block whose body states how many bytes are stored.
fn shorten_stated(
    block: RawBlock<'_>,
    most: u32,
    body: &mut Vec<u8>,
    text: &mut Vec<u8>,
) -> Result<Shortened, AllocError>
    ensures { let order = block.entry.endianness in
        IfOk result (ShortensIn (number_in order) (number_bytes order) most (raw_of block.entry) text.new.items) }
{
    match block.endianness {
        Endianness::Big => shorten_in::<BigEndian>(block, most, body, text),
        Endianness::Little => shorten_in::<LittleEndian>(block, most, body, text),
    }
}

// Shortens the packet of a block to at most this many bytes. If the packet has more bytes, the bytes of `text` are replaced by the
// shortened block's. `body` is scratch space.
fn shorten(
    block: RawBlock<'_>,
    most: u32,
    body: &mut Vec<u8>,
    text: &mut Vec<u8>,
) -> Result<Shortened, AllocError>
    ensures { IfOk result (Shortens most (raw_of block.entry) text.new.items) }
{
    match block.type_ {
        BlockType::EnhancedPacket => shorten_stated(block, most, body, text),
        BlockType::Packet => shorten_stated(block, most, body, text),
        _ => Ok(Shortened::Stays),
    }
}

/// Writes blocks whose packets have at most a number of their bytes.
#[derive(Drop)]
pub struct Shortening {
    pub(crate) most: u32,
    pub(crate) body: Vec<u8>,
    pub(crate) text: Vec<u8>,
}

impl Shortening {
    ghost use Rattle.pcapfile_cut.specs.ShortBlocks.{most_of};

    /// Makes a writer of blocks whose packets have at most this many bytes.
    pub fn new(alloc: Global, most: u32) -> Shortening
        ensures { most_of result ≡ most }
    {
        Shortening {
            most,
            body: Vec::new(alloc),
            text: Vec::new(alloc),
        }
    }

    /// Returns the most bytes that are written of each packet.
    pub fn most(&self) -> u32
        ensures { result ≡ most_of self.now }
    {
        self.most
    }

    /// Writes a block, of which `text` is all bytes, and returns the result. If its packet has more bytes, the block is written with
    /// the first ones: the stored length is smaller, zeros fill the data up to a multiple of 4, and everything else is unchanged.
    ///
    /// Enhanced and obsolete packets are shortened, since they state their stored length. `IoError` if a write failed; then a
    /// beginning of the block was written. `OutOfMemory` if there is no memory for the shortened block, or its length doesn't fit
    /// 32 bits; then nothing was written.
    pub fn put<W: Write>(
        &mut self,
        output: &mut W,
        has_failed: &mut bool,
        block: RawBlock<'_>,
        text: &[u8],
    ) -> ResultParsing<Shortened>
        ensures most { most_of self.new ≡ most_of self.old }
        ensures put { PutsShortened (most_of self.old) (raw_of block.entry) text.now (W.contents output.old) (W.contents output.new) result }
        ensures noted { NotesFailure has_failed.old has_failed.new result }
    {
        let shortened = shorten(block, self.most, &mut self.body, &mut self.text)?;
        match shortened {
            Shortened::Changed => put(output, has_failed, self.text.as_slice())?,
            Shortened::Stays | Shortened::Malformed => put(output, has_failed, text)?,
        }
        Ok(shortened)
    }
}
