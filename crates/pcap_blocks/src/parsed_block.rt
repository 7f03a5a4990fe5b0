//! Bodies of blocks of all types.

ghost use Rattle.std.specs.Prelude.{◌≡◌, IsOk, IfOk, IfErr};
ghost use Rattle.pcap_core.specs.Answer.{TellsWhere};
ghost use Rattle.pcap_options.specs.Refusal.{FindsWhere};
ghost use Rattle.pcap_blocks.specs.ParsedBlock.{BodySays, BodyMayGrow, body_of, ParsedIsBorrowed, section_in, interface_in, ParsedIsOwned, ParsedNeedsNoMemory};
ghost use Rattle.pcap_core.specs.Errors.{IsMemory};

use crate::block_type::BlockType;
use crate::enhanced_packet::EnhancedPacketBlock;
use crate::interface_description::InterfaceDescriptionBlock;
use crate::interface_statistics::InterfaceStatisticsBlock;
use crate::name_resolution::NameResolutionBlock;
use crate::packet::PacketBlock;
use crate::section_header::SectionHeaderBlock;
use crate::simple_packet::SimplePacketBlock;
use crate::systemd_journal_export::SystemdJournalExportBlock;
use crate::unknown_block::UnknownBlock;
use byteorder::ByteOrder;
use pcap_core::ResultParsing;
use pcap_core::rules::Rule;
use pcap_options::{IntoStatic, Refusal};
use std::alloc::{AllocError, Global};

/// The body of a block, by its type ('Block Types').
#[derive(Clone, Debug, Drop)]
pub enum ParsedBlock<'a> {
    SectionHeader(SectionHeaderBlock<'a>),
    InterfaceDescription(InterfaceDescriptionBlock<'a>),
    Packet(PacketBlock<'a>),
    SimplePacket(SimplePacketBlock<'a>),
    NameResolution(NameResolutionBlock<'a>),
    InterfaceStatistics(InterfaceStatisticsBlock<'a>),
    EnhancedPacket(EnhancedPacketBlock<'a>),
    SystemdJournalExport(SystemdJournalExportBlock<'a>),
    Unknown(UnknownBlock<'a>),
}

// Wraps the result of reading a body of this type as a body of any type.
macro_rules! read_body {
    ($type:ident $read:expr) => {{
        let (rest, block) = $read;
        Ok((rest, ParsedBlock::$type(block)))
    }};
}

// Makes a body of one of these types owned.
macro_rules! kept_body {
    ($body:tt $alloc:ident $($type:ident)*) => {
        match $body {
            $(ParsedBlock::$type(held) => match held.into_static($alloc) {
                Ok(kept) => Ok(ParsedBlock::$type(kept)),
                Err(error) => Err(error),
            },)*
        }
    };
}

impl<'a> ParsedBlock<'a> {
    /// Reads the body of a block of this type, and returns the bytes after it and the body. Strings and bytes are
    /// borrowed from the slice.
    ///
    /// A section's magic number decides its byte order, whatever `B` is. For an unknown type, the whole slice is the
    /// block's value, and the call also returns all of it as the rest.
    ///
    /// For an unknown type, returns `InvalidField` if the slice has 2^32 bytes or more. The other types have the errors
    /// of their own `from_slice`. Simple packets, journal entries and unknown types never give `OutOfMemory`.
    pub fn from_slice<B: ByteOrder>(
        alloc: Global,
        type_: BlockType,
        slice: &'a [u8],
    ) -> ResultParsing<(&'a [u8], Self)>
        ensures tells { TellsWhere (BodyMayGrow B.number_of type_ slice.now) (BodySays B.number_of type_ slice.now) body_of result }
        ensures borrowed { IfOk result (λ x. ParsedIsBorrowed x.1) }
    {
        Ok(ParsedBlock::read::<B>(alloc, type_, slice)?)
    }

    fn read<B: ByteOrder>(
        alloc: Global,
        type_: BlockType,
        slice: &'a [u8],
    ) -> Result<(&'a [u8], Self), Refusal>
        ensures tells { FindsWhere (BodyMayGrow B.number_of type_ slice.now) (BodySays B.number_of type_ slice.now) body_of result }
        ensures borrowed { IfOk result (λ x. ParsedIsBorrowed x.1) }
    {
        match type_ {
            BlockType::SectionHeader =>
                read_body!(SectionHeader SectionHeaderBlock::read(alloc, slice)?),
            BlockType::InterfaceDescription =>
                read_body!(InterfaceDescription InterfaceDescriptionBlock::read::<B>(alloc, slice)?),
            BlockType::Packet => read_body!(Packet PacketBlock::read::<B>(alloc, slice)?),
            BlockType::SimplePacket =>
                read_body!(SimplePacket SimplePacketBlock::read::<B>(slice)?),
            BlockType::NameResolution =>
                read_body!(NameResolution NameResolutionBlock::read::<B>(alloc, slice)?),
            BlockType::InterfaceStatistics =>
                read_body!(InterfaceStatistics InterfaceStatisticsBlock::read::<B>(alloc, slice)?),
            BlockType::EnhancedPacket =>
                read_body!(EnhancedPacket EnhancedPacketBlock::read::<B>(alloc, slice)?),
            BlockType::SystemdJournalExport =>
                read_body!(SystemdJournalExport SystemdJournalExportBlock::read(slice)),
            BlockType::Unknown(_) => {
                let Ok(len) = u32::try_from(slice.len()) else {
                    return Err(Refusal::Invalid(Rule::UnknownTooLong));
                };
                Ok((
                    slice,
                    ParsedBlock::Unknown(UnknownBlock::new(type_, len, slice)),
                ))
            }
        }
    }

    /// Returns the section, if the body is one.
    pub fn into_section_header(self) -> Option<SectionHeaderBlock<'a>>
        ensures { result ≡ section_in self.entry }
    {
        match self {
            ParsedBlock::SectionHeader(section) => Some(section),
            _ => None,
        }
    }

    /// Returns the interface, if the body is one.
    pub fn into_interface_description(self) -> Option<InterfaceDescriptionBlock<'a>>
        ensures { result ≡ interface_in self.entry }
    {
        match self {
            ParsedBlock::InterfaceDescription(block) => Some(block),
            _ => None,
        }
    }

    /// Returns the same block with its own bytes and strings: it copies borrowed ones and keeps owned ones.
    ///
    /// Returns `OutOfMemory` if an allocation fails; the value is then dropped.
    pub fn into_owned(self, alloc: Global) -> ResultParsing<ParsedBlock<'static>>
        ensures same { IfOk result (λ kept. body_of kept ≡ body_of self.entry) }
        ensures owned { IfOk result ParsedIsOwned }
        ensures memory { IfErr result IsMemory }
        ensures kept { ParsedNeedsNoMemory self.entry → IsOk result }
    {
        Ok(self.into_static(alloc)?)
    }
}

impl<'a> IntoStatic for ParsedBlock<'a> {
    type Owned = ParsedBlock<'static>;

    ghost is_same = { λ value kept. body_of kept ≡ body_of value };

    ghost is_owned = { ParsedIsOwned };

    ghost needs_no_memory = { ParsedNeedsNoMemory };

    fn into_static(self, alloc: Global) -> Result<ParsedBlock<'static>, AllocError> {
        kept_body!(
            self alloc SectionHeader InterfaceDescription Packet SimplePacket NameResolution InterfaceStatistics
            EnhancedPacket SystemdJournalExport Unknown
        )
    }
}
