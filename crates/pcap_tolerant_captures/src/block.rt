//! Blocks read leniently.

ghost use Rattle.std.specs.Prelude.{◌≡◌, ◌<◌, length, IfOk, IfErr, IfSome};
ghost use Rattle.pcap_core.specs.Answer.{number_in};
ghost use Rattle.pcap_core.specs.Bytes.{IsBorrowed};
ghost use Rattle.pcap_ng.specs.Frames.{framed_of};
ghost use Rattle.pcap_tolerant_blocks.specs.EnhancedAsIs.{EnhancedText, EnhancedGrows, enhanced_in, flaws_said};
ghost use Rattle.pcap_tolerant_blocks.specs.PacketBlockAsIs.{PacketBlockText, PacketBlockGrows, packet_in as packet_of_block, flaws_said as packet_block_flaws};
ghost use Rattle.pcap_blocks.specs.NameResolution.{names_of};
ghost use Rattle.pcap_blocks.specs.SimplePacket.{SimpleIsBorrowed};
ghost use Rattle.pcap_tolerant_blocks.specs.NamesAsIs.{NamesText, NamesGrow, flaws_said as names_flaws};
ghost use Rattle.pcap_tolerant_blocks.specs.SimpleAsIs.{SimpleAsIsText, simple_in as simple_of, flaws_said as simple_flaws};
ghost use Rattle.pcap_tolerant_blocks.specs.StatisticsAsIs.{StatisticsAsIsText, StatisticsGrow, statistics_in as statistics_of, flaws_said as statistics_flaws};
ghost use Rattle.pcap_tolerant_captures.specs.Blocks.{IsPacketIn, IsSimpleIn, IsPacketBlockIn, AreStatisticsIn, AreNamesIn, PacketGrowsIn};
ghost use Rattle.pcap_tolerant_captures.specs.Blocks.{SimpleGrowsIn, PacketBlockGrowsIn, StatisticsGrowIn, NamesGrowIn};

use byteorder::{BigEndian, LittleEndian};
use pcap_blocks::BlockType;
use pcap_core::{Endianness, ResultParsing};
use pcap_ng::pcapng::Block;
use pcap_tolerant_blocks::{
    EnhancedAsIs, Flaw, NamesAsIs, PacketBlockAsIs, SimpleAsIs, StatisticsAsIs,
};
use std::alloc::{AllocError, Global};

// Reads the body of a block of this type and drops what follows it, or returns None if the block has another type.
macro_rules! of_type {
    ($type:expr => $kind:ident, $read:expr) => {{
        if !matches!($type, BlockType::$kind) {
            return Ok(None);
        }
        let (_rest, body) = $read?;
        Ok(Some(body))
    }};
}

pub(crate) use of_type;

// Reads a body leniently in this byte order, and returns what follows it and the body.
macro_rules! in_order {
    ($order:ident $body:ident $alloc:ident $slice:ident) => {
        match $order {
            Endianness::Big => $body::from_slice::<BigEndian>($alloc, $slice),
            Endianness::Little => $body::from_slice::<LittleEndian>($alloc, $slice),
        }
    };
}

/// A block read leniently, with the flaws of its body if the block is a section header or an interface description.
#[derive(Debug, Drop)]
pub struct BlockAsIs<'a> {
    /// The block in its frame. Its body is still bytes.
    pub block: Block<'a>,
    /// The flaws of the body of a section or an interface, in the order of the text. The body of any other block isn't read.
    pub flaws: Vec<Flaw>,
}

impl<'a> BlockAsIs<'a> {
    ghost use Rattle.std.specs.Prelude.{IfErr, IsOk};
    ghost use Rattle.pcap_core.specs.Bytes.{IsOwned};
    ghost use Rattle.pcap_core.specs.Errors.{IsMemory};
    ghost use Rattle.pcap_tolerant_captures.specs.Run.{is_flawed, seen_of};

    /// Returns whether the block has a flaw. Only the body of a section or an interface is read.
    pub fn is_flawed(&self) -> bool
        ensures { result ≡ is_flawed self.now }
    {
        !self.flaws.is_empty()
    }

    /// Returns the same block with a body of its own: it copies a borrowed body, and keeps an owned one.
    ///
    /// Returns `OutOfMemory` if the copy can't be made, and drops the block.
    pub fn into_owned(self, alloc: Global) -> ResultParsing<BlockAsIs<'static>>
        ensures same { IfOk result (λ kept. seen_of kept ≡ seen_of self.entry) }
        ensures owned { IfOk result (λ kept. IsOwned kept.block.body) }
        ensures memory { IfErr result IsMemory }
        ensures kept { IsOwned self.entry.block.body → IsOk result }
    {
        let BlockAsIs { block, flaws } = self;
        Ok(BlockAsIs {
            block: block.into_owned(alloc)?,
            flaws,
        })
    }

    /// Reads the body as an enhanced packet leniently, and returns the packet with its flaws. Returns None if the block has
    /// another type. The packet's bytes are borrowed from the body.
    ///
    /// Returns `AllocError` if a list can't grow. This can happen only if the block has this type and there is a flaw or an
    /// option.
    pub fn enhanced(&self, alloc: Global) -> Result<Option<EnhancedAsIs<'_>>, AllocError>
        ensures body { IfOk result (IsPacketIn (framed_of self.now.block)) }
        ensures memory { IfErr result (λ _. PacketGrowsIn (framed_of self.now.block)) }
        ensures borrowed { IfOk result (λ x. IfSome x (λ body. IfSome body.packet (λ packet. IsBorrowed packet.data_))) }
    {
        of_type!(self.block.type_ => EnhancedPacket, packet_in(self.block.endianness(), alloc, self.block.body.as_slice()))
    }

    /// Reads the body as a simple packet leniently, and returns the packet with its flaws. Returns None if the block has
    /// another type. The packet's bytes are borrowed from the body.
    ///
    /// Returns `AllocError` if a list can't grow. This can happen only if the block has this type and there is no packet.
    pub fn simple(&self, alloc: Global) -> Result<Option<SimpleAsIs<'_>>, AllocError>
        ensures body { IfOk result (IsSimpleIn (framed_of self.now.block)) }
        ensures memory { IfErr result (λ _. SimpleGrowsIn (framed_of self.now.block)) }
        ensures borrowed { IfOk result (λ x. IfSome x (λ body. IfSome body.packet SimpleIsBorrowed)) }
    {
        of_type!(self.block.type_ => SimplePacket, simple_in(self.block.endianness(), alloc, self.block.body.as_slice()))
    }

    /// Reads the body as an obsolete packet leniently, and returns the packet with its flaws. Returns None if the block has
    /// another type. The packet's bytes are borrowed from the body.
    ///
    /// Returns `AllocError` if a list can't grow. This can happen only if the block has this type and there is a flaw or an
    /// option.
    pub fn packet_block(&self, alloc: Global) -> Result<Option<PacketBlockAsIs<'_>>, AllocError>
        ensures body { IfOk result (IsPacketBlockIn (framed_of self.now.block)) }
        ensures memory { IfErr result (λ _. PacketBlockGrowsIn (framed_of self.now.block)) }
        ensures borrowed { IfOk result (λ x. IfSome x (λ body. IfSome body.packet (λ packet. IsBorrowed packet.data_))) }
    {
        of_type!(self.block.type_ => Packet, packet_block_in(self.block.endianness(), alloc, self.block.body.as_slice()))
    }

    /// Reads the body as interface statistics leniently, and returns them with their flaws. Returns None if the block has
    /// another type.
    ///
    /// Returns `AllocError` if a list can't grow. This can happen only if the block has this type and there is a flaw or an
    /// option.
    pub fn statistics(&self, alloc: Global) -> Result<Option<StatisticsAsIs<'_>>, AllocError>
        ensures body { IfOk result (AreStatisticsIn (framed_of self.now.block)) }
        ensures memory { IfErr result (λ _. StatisticsGrowIn (framed_of self.now.block)) }
    {
        of_type!(self.block.type_ => InterfaceStatistics, statistics_in(self.block.endianness(), alloc, self.block.body.as_slice()))
    }

    /// Reads the body as names of addresses leniently, and returns them with their flaws. Returns None if the block has another
    /// type.
    ///
    /// Returns `AllocError` if a list can't grow. This can happen only if the block has this type and there is a flaw, a record
    /// or an option.
    pub fn names(&self, alloc: Global) -> Result<Option<NamesAsIs<'_>>, AllocError>
        ensures body { IfOk result (AreNamesIn (framed_of self.now.block)) }
        ensures memory { IfErr result (λ _. NamesGrowIn (framed_of self.now.block)) }
    {
        of_type!(self.block.type_ => NameResolution, names_in(self.block.endianness(), alloc, self.block.body.as_slice()))
    }
}

// Reads a body as an enhanced packet leniently in this byte order, and returns what follows it and the packet.
pub(crate) fn packet_in<'a>(
    order: Endianness,
    alloc: Global,
    slice: &'a [u8],
) -> Result<(&'a [u8], EnhancedAsIs<'a>), AllocError>
    ensures read { IfOk result (λ x. EnhancedText (number_in order) (enhanced_in x.1) (flaws_said x.1) slice.now x.0.now) }
    ensures memory { IfErr result (λ _. EnhancedGrows (number_in order) slice.now) }
    ensures borrowed { IfOk result (λ x. IfSome x.1.packet (λ packet. IsBorrowed packet.data_)) }
{
    in_order!(order EnhancedAsIs alloc slice)
}

// Reads a body as a simple packet leniently in this byte order, and returns what follows it and the packet.
pub(crate) fn simple_in<'a>(
    order: Endianness,
    alloc: Global,
    slice: &'a [u8],
) -> Result<(&'a [u8], SimpleAsIs<'a>), AllocError>
    ensures read { IfOk result (λ x. SimpleAsIsText (number_in order) (simple_of x.1) (simple_flaws x.1) slice.now x.0.now) }
    ensures memory { IfErr result (λ _. length slice.now < 4) }
    ensures borrowed { IfOk result (λ x. IfSome x.1.packet SimpleIsBorrowed) }
{
    in_order!(order SimpleAsIs alloc slice)
}

// Reads a body as an obsolete packet leniently in this byte order, and returns what follows it and the packet.
pub(crate) fn packet_block_in<'a>(
    order: Endianness,
    alloc: Global,
    slice: &'a [u8],
) -> Result<(&'a [u8], PacketBlockAsIs<'a>), AllocError>
    ensures read { IfOk result (λ x. PacketBlockText (number_in order) (packet_of_block x.1) (packet_block_flaws x.1) slice.now x.0.now) }
    ensures memory { IfErr result (λ _. PacketBlockGrows (number_in order) slice.now) }
    ensures borrowed { IfOk result (λ x. IfSome x.1.packet (λ packet. IsBorrowed packet.data_)) }
{
    in_order!(order PacketBlockAsIs alloc slice)
}

// Reads a body as interface statistics leniently in this byte order, and returns what follows them and the statistics.
pub(crate) fn statistics_in<'a>(
    order: Endianness,
    alloc: Global,
    slice: &'a [u8],
) -> Result<(&'a [u8], StatisticsAsIs<'a>), AllocError>
    ensures read { IfOk result (λ x. StatisticsAsIsText (number_in order) (statistics_of x.1) (statistics_flaws x.1) slice.now x.0.now) }
    ensures memory { IfErr result (λ _. StatisticsGrow (number_in order) slice.now) }
{
    in_order!(order StatisticsAsIs alloc slice)
}

// Reads a body as names of addresses leniently in this byte order, and returns what follows them and the names.
pub(crate) fn names_in<'a>(
    order: Endianness,
    alloc: Global,
    slice: &'a [u8],
) -> Result<(&'a [u8], NamesAsIs<'a>), AllocError>
    ensures read { IfOk result (λ x. NamesText (number_in order) (names_of x.1.names) (names_flaws x.1) slice.now x.0.now) }
    ensures memory { IfErr result (λ _. NamesGrow (number_in order) slice.now) }
{
    in_order!(order NamesAsIs alloc slice)
}
