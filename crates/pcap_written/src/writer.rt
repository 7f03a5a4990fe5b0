//! A writer of blocks.

ghost use Rattle.std.specs.Prelude.{◌≡◌, ◌<◌, ◌+◌, ◌^◌, length, [], IfErr, OnOk};
ghost use Rattle.std.specs.Borrow.{sem, Lends};
ghost use Rattle.pcap_core.specs.Errors.{IsMemory};
ghost use Rattle.pcap_core.specs.declared.common.Endianness.TheVariants.{Little};
ghost use Rattle.pcap_blocks.specs.ParsedBlock.{EnhancedBody, SectionBody, body_of};
ghost use Rattle.pcap_blocks.specs.SectionHeader.{section_of};
ghost use Rattle.pcap_written.specs.contracts.writer.PcapNgWriter.{the_row as writer-row};
ghost use Rattle.pcap_written.specs.LentStreams.{writer_with};
ghost use Rattle.pcap_written.specs.Plain.{plain_packet, plain_section};
ghost use Rattle.pcap_blocks.specs.BlockType.{type_number};
ghost use Rattle.pcap_written.specs.Bodies.{block_text, body_text, text_of};
ghost use Rattle.pcap_core.specs.Codec.{number_bytes};
ghost use Rattle.pcap_written.specs.Puts.{Puts};
ghost use Rattle.pcap_written.specs.Raw.{raw_of, raw_text, WritesRaw};
ghost use Rattle.pcap_written.specs.Writing.{stream_of, has_failed, place_of, IsFitBlock, FitFlaw, IsFitIn, FlawIn, MakesBody, OpensWriter, WritesBlock};

use crate::block::PcapNgBlock;
use crate::packet::put_packet;
use crate::place::{Place, order_under};
use crate::put::put_u32;
use crate::raw::{RawBlock, RawPcapNgBlock};
use crate::unwritable::{Unput, Unwritable};
use byteorder::{BigEndian, ByteOrder, LittleEndian};
use pcap_blocks::{BlockType, ParsedBlock, SectionHeaderBlock};
use pcap_core::{Endianness, PcapError, ResultParsing};
use pcap_items::stream::put;
use std::alloc::{AllocError, Global};
use std::io::Write;

/// Writes a PcapNg capture to a wrapped writer: sections with their interfaces, packets and other blocks.
#[derive(Debug, Drop)]
pub struct PcapNgWriter<W> {
    inner: W,
    has_failed: bool,
    place: Place,
    body: Vec<u8>,
    text: Vec<u8>,
}

impl<W> PcapNgWriter<W> {
    /// Returns the wrapped writer.
    pub fn into_writer(self) -> W
        ensures { result ≡ stream_of self }
    {
        self.inner
    }

    /// Lends the wrapped writer.
    pub fn get_ref(&self) -> &W
        ensures { result.now ≡ stream_of self.now }
    {
        &self.inner
    }

    /// Lends the wrapped writer, mutably. Bytes that the caller writes to it directly are no part of this writer's capture.
    pub fn get_mut(&mut self) -> &mut W
        ensures value { result.now ≡ stream_of self.old }
        ensures* writes_back { sem 𝓛 (Lends (writer-row W.row) W.row self.entry result (writer_with self.old)) }
    {
        &mut self.inner
    }

    /// Returns whether a write failed. After a failure the writer refuses every block.
    pub fn failed(&self) -> bool
        ensures { result ≡ has_failed self.now }
    {
        self.has_failed
    }

    /// Returns the byte order of the section that is being written.
    pub fn endianness(&self) -> Endianness
        ensures { result ≡ (place_of self.now).endianness }
    {
        self.place.endianness
    }

    /// Returns the number of interfaces that the section has described.
    pub fn interfaces(&self) -> u32
        ensures { result ≡ (place_of self.now).interfaces }
    {
        self.place.interfaces
    }
}

impl<W: Write + Drop> PcapNgWriter<W> {
    /// Makes a writer, and writes the header of a little-endian section without options.
    ///
    /// It fails as `with_section_header` does.
    pub fn new(alloc: Global, writer: W) -> ResultParsing<PcapNgWriter<W>>
        ensures { OpensWriter W.contents (SectionBody (plain_section Little)) writer result }
    {
        PcapNgWriter::with_endianness(alloc, Endianness::Little, writer)
    }

    /// Makes a writer, and writes the header of a section in this byte order, without options. The section has version 1.0
    /// and an unspecified length.
    ///
    /// It fails as `with_section_header` does.
    pub fn with_endianness(
        alloc: Global,
        endianness: Endianness,
        writer: W,
    ) -> ResultParsing<PcapNgWriter<W>>
        ensures { OpensWriter W.contents (SectionBody (plain_section endianness)) writer result }
    {
        let section = SectionHeaderBlock {
            magic: match endianness {
                Endianness::Big => 0x1A2B3C4D,
                Endianness::Little => 0x4D3C2B1A,
            },
            major_version: 1,
            minor_version: 0,
            section_length: -1,
            options: Vec::new(alloc),
        };
        PcapNgWriter::with_section_header(alloc, &section, writer)
    }

    /// Makes a writer, and writes this section header in the byte order that its magic number names.
    ///
    /// `InvalidField` if the section can't be written (see `Unwritable`), or `OutOfMemory`; in both cases nothing is
    /// written. `IoError` if a write failed; then a beginning of the section header was written.
    pub fn with_section_header(
        alloc: Global,
        section: &SectionHeaderBlock<'_>,
        writer: W,
    ) -> ResultParsing<PcapNgWriter<W>>
        ensures { OpensWriter W.contents (SectionBody (section_of section.now)) writer result }
    {
        let mut made = PcapNgWriter {
            inner: writer,
            has_failed: false,
            place: Place {
                endianness: Endianness::Little,
                interfaces: 0,
            },
            body: Vec::new(alloc),
            text: Vec::new(alloc),
        };
        made.write_pcapng_block(section)?;
        Ok(made)
    }
}

impl<W: Write> PcapNgWriter<W> {
    /// Writes an enhanced packet without options, and takes no memory. The arguments are the number of its interface, its
    /// timestamp, its data, and its length on the wire in bytes. The timestamp is in units of the interface's clock since
    /// 1970-01-01 00:00:00 UTC.
    ///
    /// `WriterFailed` if an earlier write failed, and else `InvalidField` if the section has not described the interface,
    /// or the block would have 2^32 bytes or more; in these cases nothing is written. `IoError` if a write failed; then a
    /// beginning of the block was written.
    pub fn write_packet(
        &mut self,
        interface_id: u32,
        timestamp: u64,
        bytes: &[u8],
        original_len: u32,
    ) -> ResultParsing<()>
        ensures block { WritesBlock W.contents self.old self.new (EnhancedBody (plain_packet interface_id timestamp original_len bytes.now)) result }
        ensures memory { IfErr result (λ e. IsMemory e → ⊥) }
    {
        if self.has_failed {
            return Err(PcapError::WriterFailed);
        }
        if interface_id >= self.place.interfaces {
            return Err(PcapError::from(Unput::Unfit(Unwritable::InterfaceMissing)));
        }
        if bytes.len() > 4_294_967_260 {
            return Err(PcapError::from(Unput::Unfit(Unwritable::BlockTooLong)));
        }
        let (inner, has_failed) = (&mut self.inner, &mut self.has_failed);
        match self.place.endianness {
            Endianness::Big => {
                put_packet::<W, BigEndian>(
                    inner,
                    has_failed,
                    interface_id,
                    timestamp,
                    bytes,
                    original_len,
                )
            }
            Endianness::Little => {
                put_packet::<W, LittleEndian>(
                    inner,
                    has_failed,
                    interface_id,
                    timestamp,
                    bytes,
                    original_len,
                )
            }
        }
    }

    /// Writes a block of any type, as `write_pcapng_block` does.
    pub fn write_block(&mut self, block: &ParsedBlock<'_>) -> ResultParsing<()>
        ensures { WritesBlock W.contents self.old self.new (body_of block.now) result }
    {
        self.write_pcapng_block(block)
    }

    /// Writes a block. A section header begins a section of its own byte order, without interfaces. Each other block is
    /// written in the byte order of the section.
    ///
    /// `WriterFailed` if an earlier write failed, and else `InvalidField` if the block can't be written here (see
    /// `Unwritable`), or `OutOfMemory`; in these cases nothing is written. `IoError` if a write failed; then a beginning of
    /// the block was written.
    pub fn write_pcapng_block<B: PcapNgBlock>(&mut self, block: &B) -> ResultParsing<()>
        ensures { WritesBlock W.contents self.old self.new (B.sees block.now) result }
    {
        if self.has_failed {
            return Err(PcapError::WriterFailed);
        }
        let place = match self.place.behind(block.head()) {
            Ok(place) => place,
            Err(flaw) => return Err(PcapError::from(Unput::Unfit(flaw))),
        };
        encode(place.endianness, &mut self.body, &mut self.text, block)?;
        put(&mut self.inner, &mut self.has_failed, self.text.as_slice())?;
        self.place = place;
        Ok(())
    }

    /// Writes a block of bytes: its frame, and its body, which is written unchanged and not read. A section header begins a
    /// section of its own byte order, without interfaces. An interface description adds an interface. Each other block must
    /// have the byte order of the section.
    ///
    /// `WriterFailed` if an earlier write failed, and else `InvalidField` if the frame can't be written here, or
    /// `OutOfMemory`; in these cases nothing is written. The reasons of `Unwritable` for `InvalidField` are `Breaks` of
    /// `BlockUnaligned` or `SectionMagic`, `BlockTooLong`, `TypeMisnamed`, `OrderDiffers` and `InterfacesFull`. `IoError`
    /// if a write failed; then a beginning of the block was written.
    pub fn write_raw_block<B: RawPcapNgBlock>(&mut self, block: &B) -> ResultParsing<()>
        ensures { WritesRaw W.contents self.old self.new (B.shows block.now) result }
    {
        if self.has_failed {
            return Err(PcapError::WriterFailed);
        }
        let raw = block.raw();
        let place = match raw.behind(self.place) {
            Ok(place) => place,
            Err(flaw) => return Err(PcapError::from(Unput::Unfit(flaw))),
        };
        frame(&mut self.text, raw)?;
        let text = self.text.as_slice();
        put(&mut self.inner, &mut self.has_failed, text)?;
        self.place = place;
        Ok(())
    }
}

/// Replaces `text` by the text of a block of bytes, in the block's own byte order.
///
/// `AllocError` if the text can't grow.
pub fn frame(text: &mut Vec<u8>, block: RawBlock<'_>) -> Result<(), AllocError>
    requires { length block.body.now + 12 < 2 ^ 32 }
    ensures { OnOk result (text.new.items ≡ raw_text (raw_of block.entry)) }
{
    match block.endianness {
        Endianness::Big => frame_in::<BigEndian>(text, block.type_, block.body),
        Endianness::Little => frame_in::<LittleEndian>(text, block.type_, block.body),
    }
}

// Replaces `text` by a block of this type around a body: the type, the length, the body, and the length again.
fn frame_in<O: ByteOrder>(
    text: &mut Vec<u8>,
    type_: BlockType,
    body: &[u8],
) -> Result<(), AllocError>
    requires { length body.now + 12 < 2 ^ 32 }
    ensures { OnOk result (text.new.items ≡ block_text O.bytes_of (type_number type_) body.now) }
{
    let len = (body.len() + 12) as u32;
    text.clear();
    put_u32::<O>(text, u32::from(type_))?;
    put_u32::<O>(text, len)?;
    text.extend_from_slice(body)?;
    put_u32::<O>(text, len)
}

/// Replaces `text` by the text of a block in this byte order. The function uses `body` as a buffer.
///
/// `Unput` if the block can't be written in this byte order, or memory ran out.
pub fn encode<B: PcapNgBlock>(
    order: Endianness,
    body: &mut Vec<u8>,
    text: &mut Vec<u8>,
    block: &B,
) -> Result<(), Unput>
    ensures { Puts (IsFitIn order (B.sees block.now)) (FlawIn order (B.sees block.now))
        (text_of (number_bytes order) (B.sees block.now)) [] text.new.items result }
{
    match order {
        Endianness::Big => encode_in::<B, BigEndian>(body, text, block),
        Endianness::Little => encode_in::<B, LittleEndian>(body, text, block),
    }
}

// Replaces `text` by the text of a block: its type, its length, its body, and its length again.
fn encode_in<B: PcapNgBlock, O: ByteOrder>(
    body: &mut Vec<u8>,
    text: &mut Vec<u8>,
    block: &B,
) -> Result<(), Unput>
    ensures { Puts (IsFitBlock O.number_of O.bytes_of (B.sees block.now))
        (FitFlaw O.number_of O.bytes_of (B.sees block.now)) (text_of O.bytes_of (B.sees block.now)) [] text.new.items result }
{
    body_in::<B, O>(body, block)?;
    frame_in::<O>(text, block.head().type_, body.as_slice())?;
    Ok(())
}

/// Replaces `body` by the body of a block, and returns the block's byte order: this one, or the one that a section header's
/// magic number names. The function doesn't check whether the section has described the block's interface.
///
/// `Unput` if the block can't be written in that byte order, or memory ran out.
pub fn encode_body<B: PcapNgBlock>(
    order: Endianness,
    body: &mut Vec<u8>,
    block: &B,
) -> Result<Endianness, Unput>
    ensures { MakesBody order (B.sees block.now) body.new.items result }
{
    let own = order_under(order, block.head().magic)?;
    match own {
        Endianness::Big => body_in::<B, BigEndian>(body, block)?,
        Endianness::Little => body_in::<B, LittleEndian>(body, block)?,
    }
    Ok(own)
}

// Replaces `body` by the body of a block, if the block's length fits four bytes.
fn body_in<B: PcapNgBlock, O: ByteOrder>(body: &mut Vec<u8>, block: &B) -> Result<(), Unput>
    ensures { Puts (IsFitBlock O.number_of O.bytes_of (B.sees block.now))
        (FitFlaw O.number_of O.bytes_of (B.sees block.now)) (body_text O.bytes_of (B.sees block.now)) [] body.new.items result }
{
    body.clear();
    block.put_body::<O>(body)?;
    if body.len() > 4_294_967_283 {
        return Err(Unput::Unfit(Unwritable::BlockTooLong));
    }
    Ok(())
}
