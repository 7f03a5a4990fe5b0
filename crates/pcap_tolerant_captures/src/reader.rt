//! A lenient reader of the blocks of a stream.

ghost use Rattle.std.specs.Prelude.{◌≡◌, false, [], IfOk, option_map};
ghost use Rattle.pcap_items.specs.Held.{held_bytes};
ghost use Rattle.pcap_items.specs.Reading.{NextGives, Pulls};
ghost use Rattle.pcap_ng.specs.Frames.{framed_of};
ghost use Rattle.pcap_items.specs.Lent.{HoldsText};
ghost use Rattle.pcap_ng.specs.Lent.{header_of, framed_around};
ghost use Rattle.pcap_tolerant_captures.specs.Blocks.{as_is_format};
ghost use Rattle.pcap_tolerant_captures.specs.HeldAsIs.{state_in, held_item, LentTells, StaysUnlessTaken};
ghost use Rattle.pcap_tolerant_captures.specs.Outlines.{OutlineTells, HoldsOutline};

use crate::block::{
    BlockAsIs, names_in, of_type, packet_block_in, packet_in, simple_in, statistics_in,
};
use crate::parser::{OpenedAsIs, PcapNgParserAsIs};
use crate::stated::{BlocksAsIs, order_in};
use pcap_blocks::BlockType;
use pcap_core::rules::Rule;
use pcap_core::{PcapError, ResultParsing};
use pcap_items::stream::{Held, fill_item};
use pcap_ng::pcapng::{Block, BlockHeader};
use pcap_tolerant_blocks::{
    EnhancedAsIs, Flaw, NamesAsIs, PacketBlockAsIs, SimpleAsIs, StatisticsAsIs,
};
use std::alloc::{AllocError, Global};
use std::io::Read;

/// The header of a block whose body a reader lends, and the flaws of that body.
#[derive(Debug, Drop)]
pub struct LentAsIs {
    /// The block's type, its length and its byte order.
    pub header: BlockHeader,
    /// The flaws of the body of a section or an interface, in the order of the text. The body of any other block isn't read.
    pub flaws: Vec<Flaw>,
}

/// A reader that reads the blocks of a stream leniently, one for each call of `next_header`, from the first section header on. It
/// leaves no block out for the flaws of its body. The reader lends the block's bytes until the next call, so a block needs no
/// memory of its own, except a section header or an interface description, which stays in force.
///
/// `next_header` returns None if the stream ends between blocks, and the next call reads the stream again. After its first
/// error it always returns None. Between blocks the reader has taken exactly the bytes of the blocks. A call that returns an
/// error has taken no more than was missing, and leaves the section and its interfaces unchanged.
#[derive(Drop)]
pub struct PcapNgReaderAsIs<T> {
    alloc: Global,
    parser: Option<PcapNgParserAsIs>,
    inner: T,
    has_failed: bool,
    held: Held,
    is_done: bool,
    ghost unfailed: { is_done ≡ false → has_failed ≡ false },
}

// Returns the header of a block.
fn header_in(block: &Block) -> BlockHeader
    ensures { result ≡ header_of (framed_of block.now) }
{
    BlockHeader {
        type_: block.type_,
        initial_len: block.initial_len,
        endianness: block.endianness(),
    }
}

// Returns what a reader lends of a block.
fn lent(read: BlockAsIs) -> LentAsIs
    ensures header { result.header ≡ header_of (framed_of read.entry.block) }
    ensures flaws { result.flaws ≡ read.entry.flaws }
{
    let BlockAsIs { block, flaws } = read;
    let header = header_in(&block);
    LentAsIs { header, flaws }
}

// Reads the block at the front of these bytes: the next one, or the first one, with which the parser begins.
fn follow(
    alloc: Global,
    parser: &mut Option<PcapNgParserAsIs>,
    bytes: &[u8],
) -> ResultParsing<LentAsIs>
    ensures { LentTells (state_in parser.old) (state_in parser.new) bytes.now result }
{
    if let Some(begun) = parser {
        let (_rest, block) = begun.next_block_as_is(bytes)?;
        return Ok(lent(block));
    }
    let (_rest, opened) = PcapNgParserAsIs::new(alloc, bytes)?;
    let OpenedAsIs {
        parser: begun,
        first,
    } = opened;
    *parser = Some(begun);
    Ok(lent(first))
}

// Holds the text of the next block. Nothing is held before the call, nor if no block comes. The section and interfaces in force
// change only if a block comes.
pub(crate) fn hold<T: Read>(
    alloc: Global,
    parser: &mut Option<PcapNgParserAsIs>,
    stream: &mut T,
    has_failed: &mut bool,
    held: &mut Held,
) -> ResultParsing<Option<LentAsIs>>
    requires between { held_bytes held.old ≡ [] }
    requires unfailed { has_failed.old ≡ false }
    ensures pulls { Pulls (as_is_format.says (state_in parser.old)) (held_item (state_in parser.new) (held_bytes held.new))
        (T.remaining stream.old) (T.remaining stream.new) has_failed.new result }
    ensures stays { StaysUnlessTaken (state_in parser.old) (state_in parser.new) result }
    ensures text { HoldsText (as_is_format.says (state_in parser.old)) (held_item (state_in parser.new) (held_bytes held.new))
        (T.remaining stream.old) (T.remaining stream.new) (held_bytes held.new) result }
{
    let Some(_head) = fill_item(&BlocksAsIs { parser }, stream, has_failed, held)? else {
        return Ok(None);
    };
    let block = follow(alloc, parser, held.as_slice())?;
    Ok(Some(block))
}

// Reads the frame of the block at the front of these bytes. Of what the block puts in force, the parser keeps the byte order.
fn outline(
    alloc: Global,
    parser: &mut Option<PcapNgParserAsIs>,
    bytes: &[u8],
) -> ResultParsing<BlockHeader>
    ensures { OutlineTells (state_in parser.old) (state_in parser.new) bytes.now result }
{
    let (_rest, block) = Block::from_slice(order_in(parser), bytes)?;
    match block.type_ {
        BlockType::SectionHeader if block.body.as_slice().len() < 16 => {
            return Err(PcapError::from(Rule::SectionTooShort));
        }
        BlockType::SectionHeader => {
            *parser = Some(PcapNgParserAsIs::bare(alloc, block.endianness()));
        }
        _ if parser.is_none() => return Err(PcapError::from(Rule::SectionMissing)),
        _ => {}
    }
    Ok(header_in(&block))
}

// Holds the text of the next block, as `hold` does, and keeps the byte order of what the block puts in force.
fn hold_outline<T: Read>(
    alloc: Global,
    parser: &mut Option<PcapNgParserAsIs>,
    stream: &mut T,
    has_failed: &mut bool,
    held: &mut Held,
) -> ResultParsing<Option<BlockHeader>>
    requires between { held_bytes held.old ≡ [] }
    requires unfailed { has_failed.old ≡ false }
    ensures { HoldsOutline (state_in parser.old) (state_in parser.new) (T.remaining stream.old) (T.remaining stream.new) has_failed.new
        (held_bytes held.new) result }
{
    let Some(_head) = fill_item(&BlocksAsIs { parser }, stream, has_failed, held)? else {
        return Ok(None);
    };
    let header = outline(alloc, parser, held.as_slice())?;
    Ok(Some(header))
}

impl<T: Read + Drop> PcapNgReaderAsIs<T> {
    ghost use Rattle.pcap_items.specs.Lent.{LendsText};
    ghost use Rattle.pcap_tolerant_captures.specs.Outlines.{NextOutline};
    ghost use Rattle.pcap_tolerant_captures.specs.OutlinedReader.{seen_of};
    ghost use Rattle.pcap_tolerant_captures.specs.ReaderAsIs.{state_of, stream_of, has_failed, is_done, text_of, lent_item, StaysUnlessGiven};

    /// Reads the next block and returns its header, with all flaws of the body of a section or an interface. The reader lends
    /// the body (`body`, `text`, `enhanced` and similar calls) until the next call. A section or an interface is in force from
    /// then on.
    ///
    /// Returns `InvalidField` for the first rule that the block's frame breaks, by V10 if the first block is no section header,
    /// and by V11 if the body of a section header is under 16 bytes. Returns `IoError` if a read fails, or if the stream ends
    /// inside the block. Returns `OutOfMemory` if the block can't be held, or if a section or interface can't be kept. The
    /// buffer grows with the bytes that come, and keeps its size.
    pub fn next_header(&mut self) -> Option<ResultParsing<LentAsIs>>
        ensures stays { StaysUnlessGiven (state_of self.old) (state_of self.new) result }
        ensures next { NextGives (as_is_format.says (state_of self.old)) (lent_item self.new)
            (T.remaining (stream_of self.old)) (T.remaining (stream_of self.new)) (is_done self.old) (is_done self.new)
            (has_failed self.old) (has_failed self.new) result }
        ensures text { LendsText (as_is_format.says (state_of self.old)) (lent_item self.new)
            (T.remaining (stream_of self.old)) (T.remaining (stream_of self.new)) (text_of self.new) result }
    {
        self.held.clear();
        if self.is_done {
            return None;
        }
        let header = hold(
            self.alloc,
            &mut self.parser,
            &mut self.inner,
            &mut self.has_failed,
            &mut self.held,
        );
        self.is_done = header.is_err();
        if self.is_done {
            self.held.clear();
        }
        header.transpose()
    }

    /// Reads the next block as `next_header` does, but makes no list of options, whatever the block contains. It returns the
    /// block's header, and the reader lends the body until the next call (`body`, `text`).
    ///
    /// Of a section, only its byte order stays in force, in a section without options. An interface isn't kept.
    ///
    /// The errors are those of `next_header`. Only the block's bytes need memory.
    pub fn next_outline(&mut self) -> Option<ResultParsing<BlockHeader>>
        ensures { NextOutline (seen_of T.remaining self.old) (seen_of T.remaining self.new) result }
    {
        self.held.clear();
        if self.is_done {
            return None;
        }
        let given = hold_outline(
            self.alloc,
            &mut self.parser,
            &mut self.inner,
            &mut self.has_failed,
            &mut self.held,
        );
        self.is_done = given.is_err();
        if self.is_done {
            self.held.clear();
        }
        given.transpose()
    }
}

impl<T> PcapNgReaderAsIs<T> {
    ghost use Rattle.std.specs.Prelude.{IfErr, IfSome};
    ghost use Rattle.pcap_core.specs.Bytes.{IsBorrowed};
    ghost use Rattle.pcap_blocks.specs.SimplePacket.{SimpleIsBorrowed};
    ghost use Rattle.pcap_tolerant_captures.specs.Blocks.{IsPacketIn, IsSimpleIn, IsPacketBlockIn, AreStatisticsIn, AreNamesIn, PacketGrowsIn};
    ghost use Rattle.pcap_tolerant_captures.specs.Blocks.{SimpleGrowsIn, PacketBlockGrowsIn, StatisticsGrowIn, NamesGrowIn};
    ghost use Rattle.pcap_tolerant_captures.specs.State.{opening};
    ghost use Rattle.pcap_tolerant_captures.specs.ReaderAsIs.{state_of, stream_of, parser_of, has_failed, is_done, text_of, body_of};

    /// Returns a reader of a capture's blocks. It reads nothing yet.
    pub fn new(alloc: Global, stream: T) -> PcapNgReaderAsIs<T>
        ensures opening { state_of result ≡ opening }
        ensures stream { stream_of result ≡ stream }
        ensures unfailed { has_failed result ≡ false }
        ensures ready { is_done result ≡ false }
        ensures nothing_held { text_of result ≡ [] }
    {
        PcapNgReaderAsIs {
            alloc,
            parser: None,
            inner: stream,
            has_failed: false,
            held: Held::new(alloc),
            is_done: false,
        }
    }

    /// Returns the text of the block that `next_header` returned last: all of its bytes as in the stream, from its type to the
    /// length behind its body. It is empty before the first call, and if the last call returned no header.
    pub fn text(&self) -> &[u8]
        ensures { result.now ≡ text_of self.now }
    {
        self.held.as_slice()
    }

    /// Returns the body of the block whose `text` the reader lends.
    pub fn body(&self) -> &[u8]
        ensures { result.now ≡ body_of self.now }
    {
        let bytes = self.text();
        if bytes.len() < 12 {
            return &[];
        }
        let (_head, after) = bytes.split_at(8);
        let (body, _len) = after.split_at(bytes.len() - 12);
        body
    }

    /// Reads the body of the last block as an enhanced packet leniently, and returns the packet with its flaws. `header` is the
    /// header that `next_header` returned last. Returns None if the block has another type. The packet's bytes are borrowed
    /// from the body.
    ///
    /// Returns `AllocError` if a list can't grow. This can happen only if the block has this type and there is a flaw or an
    /// option.
    pub fn enhanced(&self, header: BlockHeader) -> Result<Option<EnhancedAsIs<'_>>, AllocError>
        ensures body { IfOk result (IsPacketIn (framed_around header (body_of self.now))) }
        ensures memory { IfErr result (λ _. PacketGrowsIn (framed_around header (body_of self.now))) }
        ensures borrowed { IfOk result (λ x. IfSome x (λ body. IfSome body.packet (λ packet. IsBorrowed packet.data_))) }
    {
        of_type!(header.type_ => EnhancedPacket, packet_in(header.endianness, self.alloc, self.body()))
    }

    /// Reads the body of the last block as an obsolete packet, as `enhanced` does for an enhanced packet.
    pub fn packet_block(
        &self,
        header: BlockHeader,
    ) -> Result<Option<PacketBlockAsIs<'_>>, AllocError>
        ensures body { IfOk result (IsPacketBlockIn (framed_around header (body_of self.now))) }
        ensures memory { IfErr result (λ _. PacketBlockGrowsIn (framed_around header (body_of self.now))) }
        ensures borrowed { IfOk result (λ x. IfSome x (λ body. IfSome body.packet (λ packet. IsBorrowed packet.data_))) }
    {
        of_type!(header.type_ => Packet, packet_block_in(header.endianness, self.alloc, self.body()))
    }

    /// Reads the body of the last block as a simple packet, as `enhanced` does for an enhanced packet. `AllocError` can come
    /// only if the block has this type and there is no packet.
    pub fn simple(&self, header: BlockHeader) -> Result<Option<SimpleAsIs<'_>>, AllocError>
        ensures body { IfOk result (IsSimpleIn (framed_around header (body_of self.now))) }
        ensures memory { IfErr result (λ _. SimpleGrowsIn (framed_around header (body_of self.now))) }
        ensures borrowed { IfOk result (λ x. IfSome x (λ body. IfSome body.packet SimpleIsBorrowed)) }
    {
        of_type!(header.type_ => SimplePacket, simple_in(header.endianness, self.alloc, self.body()))
    }

    /// Reads the body of the last block as interface statistics, as `enhanced` does for an enhanced packet.
    pub fn statistics(&self, header: BlockHeader) -> Result<Option<StatisticsAsIs<'_>>, AllocError>
        ensures body { IfOk result (AreStatisticsIn (framed_around header (body_of self.now))) }
        ensures memory { IfErr result (λ _. StatisticsGrowIn (framed_around header (body_of self.now))) }
    {
        of_type!(header.type_ => InterfaceStatistics, statistics_in(header.endianness, self.alloc, self.body()))
    }

    /// Reads the body of the last block as names of addresses, as `enhanced` does for an enhanced packet. `AllocError` can also
    /// come if there is a record.
    pub fn names(&self, header: BlockHeader) -> Result<Option<NamesAsIs<'_>>, AllocError>
        ensures body { IfOk result (AreNamesIn (framed_around header (body_of self.now))) }
        ensures memory { IfErr result (λ _. NamesGrowIn (framed_around header (body_of self.now))) }
    {
        of_type!(header.type_ => NameResolution, names_in(header.endianness, self.alloc, self.body()))
    }

    /// Returns the parser behind the blocks so far, which has the section in force and its interfaces. Returns None before the
    /// first section header.
    pub fn parser(&self) -> Option<&PcapNgParserAsIs>
        ensures { option_map (λ parser. parser.now) result ≡ parser_of self.now }
    {
        self.parser.as_ref()
    }

    /// Returns whether a read of the wrapped stream failed.
    pub fn failed(&self) -> bool
        ensures { result ≡ has_failed self.now }
    {
        self.has_failed
    }

    /// Returns the wrapped stream by reference.
    pub fn get_ref(&self) -> &T
        ensures { result.now ≡ stream_of self.now }
    {
        &self.inner
    }

    /// Returns the wrapped stream, and drops the held bytes.
    pub fn into_reader(self) -> T
        ensures { result ≡ stream_of self }
    {
        self.inner
    }
}
