//! The bodies of blocks, and how they are written.

ghost use Rattle.std.specs.Prelude.{◌≡◌, ◌++◌, OnOk};
ghost use Rattle.pcap_blocks.specs.EnhancedPacket.{enhanced_of};
ghost use Rattle.pcap_blocks.specs.InterfaceDescription.{interface_of};
ghost use Rattle.pcap_blocks.specs.InterfaceStatistics.{statistics_of};
ghost use Rattle.pcap_blocks.specs.NameResolution.{names_of};
ghost use Rattle.pcap_blocks.specs.Packet.{packet_of};
ghost use Rattle.pcap_blocks.specs.ParsedBlock.{Body, SectionBody, InterfaceBody, OldPacketBody, SimpleBody, NamesBody, StatisticsBody};
ghost use Rattle.pcap_blocks.specs.ParsedBlock.{EnhancedBody, JournalBody, OtherBody, body_of};
ghost use Rattle.pcap_blocks.specs.SectionHeader.{section_of};
ghost use Rattle.pcap_blocks.specs.SimplePacket.{simple_of};
ghost use Rattle.pcap_blocks.specs.SystemdJournalExport.{journal_of};
ghost use Rattle.pcap_blocks.specs.UnknownBlock.{unknown_of};
ghost use Rattle.pcap_written.specs.Bodies.{body_text, head_of, packet_head_text};
ghost use Rattle.pcap_written.specs.Fits.{IsFitBody};
ghost use Rattle.pcap_written.specs.Flaws.{BodyFlaw, TellsLink};
ghost use Rattle.pcap_written.specs.Puts.{Puts};

use crate::names::put_records;
use crate::options::put_options;
use crate::put::{put_i64, put_padded, put_time, put_u16, put_u32};
use crate::unwritable::{Unput, Unwritable};
use byteorder::{BigEndian, ByteOrder};
use pcap_blocks::{
    BlockType, EnhancedPacketBlock, EnhancedPacketOption, InterfaceDescriptionBlock,
    InterfaceDescriptionOption, InterfaceStatisticsBlock, InterfaceStatisticsOption,
    NameResolutionBlock, NameResolutionOption, PacketBlock, PacketOption, ParsedBlock,
    SectionHeaderBlock, SectionHeaderOption, SimplePacketBlock, SystemdJournalExportBlock,
    UnknownBlock,
};
use pcap_core::DataLink;
use std::alloc::AllocError;

/// The facts about a block that the writer needs before it writes the block's body.
#[derive(Clone, Copy, Debug, PartialEq, Eq)]
pub struct BlockHead {
    /// The block's type.
    pub type_: BlockType,
    /// The magic number of a section, which defines its byte order.
    pub magic: Option<u32>,
    /// The interface that the block refers to, by its number in the section.
    pub interface_id: Option<u32>,
}

impl BlockHead {
    // Returns the head of a block that is no section and refers to no interface.
    fn of(type_: BlockType) -> BlockHead
        ensures { result ≡ record { type_ = type_; magic = None; interface_id = None } }
    {
        BlockHead {
            type_,
            magic: None,
            interface_id: None,
        }
    }
}

/// A block that can be written.
pub trait PcapNgBlock {
    ghost sees: { Self → Body };

    /// Returns the block's type, its magic number if it is a section, and the interface that it refers to.
    fn head(&self) -> BlockHead
        ensures { result ≡ head_of (sees self.now) };

    /// Appends the block's body to `out`, or returns why not: the body can't be written, or memory ran out.
    fn put_body<B: ByteOrder>(&self, out: &mut Vec<u8>) -> Result<(), Unput>
        ensures { Puts (IsFitBody B.number_of B.bytes_of (sees self.now))
            (BodyFlaw B.number_of B.bytes_of (sees self.now)) (body_text B.bytes_of (sees self.now)) out.old.items out.new.items result };
}

impl<'a> PcapNgBlock for SectionHeaderBlock<'a> {
    ghost sees = { λ block. SectionBody (section_of block) };

    fn head(&self) -> BlockHead {
        BlockHead {
            magic: Some(self.magic),
            ..BlockHead::of(BlockType::SectionHeader)
        }
    }

    fn put_body<B: ByteOrder>(&self, out: &mut Vec<u8>) -> Result<(), Unput> {
        put_u32::<BigEndian>(out, self.magic)?;
        put_u16::<B>(out, self.major_version)?;
        put_u16::<B>(out, self.minor_version)?;
        put_i64::<B>(out, self.section_length)?;
        put_options::<SectionHeaderOption, B>(out, self.options.as_slice())
    }
}

impl<'a> PcapNgBlock for InterfaceDescriptionBlock<'a> {
    ghost sees = { λ block. InterfaceBody (interface_of block) };

    fn head(&self) -> BlockHead {
        BlockHead::of(BlockType::InterfaceDescription)
    }

    fn put_body<B: ByteOrder>(&self, out: &mut Vec<u8>) -> Result<(), Unput> {
        let link = link_number(self.linktype)?;
        put_u16::<B>(out, link)?;
        put_u16::<B>(out, self.reserved)?;
        put_u32::<B>(out, self.snaplen)?;
        put_options::<InterfaceDescriptionOption, B>(out, self.options.as_slice())
    }
}

impl<'a> PcapNgBlock for PacketBlock<'a> {
    ghost sees = { λ block. OldPacketBody (packet_of block) };

    fn head(&self) -> BlockHead {
        BlockHead {
            interface_id: Some(self.interface_id as u32),
            ..BlockHead::of(BlockType::Packet)
        }
    }

    fn put_body<B: ByteOrder>(&self, out: &mut Vec<u8>) -> Result<(), Unput> {
        if self.data_.as_slice().len() != self.captured_len as usize {
            return Err(Unput::Unfit(Unwritable::CapturedLengthDiffers));
        }
        put_u16::<B>(out, self.interface_id)?;
        put_u16::<B>(out, self.drop_count)?;
        put_stored_head::<B>(out, self.timestamp, self.captured_len, self.original_len)?;
        put_padded(out, self.data_.as_slice())?;
        put_options::<PacketOption, B>(out, self.options.as_slice())
    }
}

impl<'a> PcapNgBlock for SimplePacketBlock<'a> {
    ghost sees = { λ block. SimpleBody (simple_of block) };

    fn head(&self) -> BlockHead {
        BlockHead::of(BlockType::SimplePacket)
    }

    fn put_body<B: ByteOrder>(&self, out: &mut Vec<u8>) -> Result<(), Unput> {
        put_u32::<B>(out, self.original_len)?;
        put_padded(out, self.data_.as_slice())?;
        Ok(())
    }
}

impl<'a> PcapNgBlock for NameResolutionBlock<'a> {
    ghost sees = { λ block. NamesBody (names_of block) };

    fn head(&self) -> BlockHead {
        BlockHead::of(BlockType::NameResolution)
    }

    fn put_body<B: ByteOrder>(&self, out: &mut Vec<u8>) -> Result<(), Unput> {
        put_records::<B>(out, self.records.as_slice())?;
        put_u16::<B>(out, 0)?;
        put_u16::<B>(out, 0)?;
        put_options::<NameResolutionOption, B>(out, self.options.as_slice())
    }
}

impl<'a> PcapNgBlock for InterfaceStatisticsBlock<'a> {
    ghost sees = { λ block. StatisticsBody (statistics_of block) };

    fn head(&self) -> BlockHead {
        BlockHead {
            interface_id: Some(self.interface_id),
            ..BlockHead::of(BlockType::InterfaceStatistics)
        }
    }

    fn put_body<B: ByteOrder>(&self, out: &mut Vec<u8>) -> Result<(), Unput> {
        put_u32::<B>(out, self.interface_id)?;
        put_time::<B>(out, self.timestamp)?;
        put_options::<InterfaceStatisticsOption, B>(out, self.options.as_slice())
    }
}

impl<'a> PcapNgBlock for EnhancedPacketBlock<'a> {
    ghost sees = { λ block. EnhancedBody (enhanced_of block) };

    fn head(&self) -> BlockHead {
        BlockHead {
            interface_id: Some(self.interface_id),
            ..BlockHead::of(BlockType::EnhancedPacket)
        }
    }

    fn put_body<B: ByteOrder>(&self, out: &mut Vec<u8>) -> Result<(), Unput> {
        if self.data_.as_slice().len() != self.captured_len as usize {
            return Err(Unput::Unfit(Unwritable::CapturedLengthDiffers));
        }
        put_u32::<B>(out, self.interface_id)?;
        put_stored_head::<B>(out, self.timestamp, self.captured_len, self.original_len)?;
        put_padded(out, self.data_.as_slice())?;
        put_options::<EnhancedPacketOption, B>(out, self.options.as_slice())
    }
}

impl<'a> PcapNgBlock for SystemdJournalExportBlock<'a> {
    ghost sees = { λ block. JournalBody (journal_of block) };

    fn head(&self) -> BlockHead {
        BlockHead::of(BlockType::SystemdJournalExport)
    }

    fn put_body<B: ByteOrder>(&self, out: &mut Vec<u8>) -> Result<(), Unput> {
        put_padded(out, self.journal_entry.as_slice())?;
        Ok(())
    }
}

impl<'a> PcapNgBlock for UnknownBlock<'a> {
    ghost sees = { λ block. OtherBody (unknown_of block) };

    fn head(&self) -> BlockHead {
        BlockHead::of(self.type_)
    }

    fn put_body<B: ByteOrder>(&self, out: &mut Vec<u8>) -> Result<(), Unput> {
        let number = u32::from(self.type_);
        if BlockType::from(number) != BlockType::Unknown(number) {
            return Err(Unput::Unfit(Unwritable::TypeMisnamed));
        }
        if self.value.as_slice().len() != self.length as usize {
            return Err(Unput::Unfit(Unwritable::BlockLengthDiffers));
        }
        put_padded(out, self.value.as_slice())?;
        Ok(())
    }
}

impl<'a> PcapNgBlock for ParsedBlock<'a> {
    ghost sees = { body_of };

    fn head(&self) -> BlockHead {
        match self {
            Self::SectionHeader(block) => block.head(),
            Self::InterfaceDescription(block) => block.head(),
            Self::Packet(block) => block.head(),
            Self::SimplePacket(block) => block.head(),
            Self::NameResolution(block) => block.head(),
            Self::InterfaceStatistics(block) => block.head(),
            Self::EnhancedPacket(block) => block.head(),
            Self::SystemdJournalExport(block) => block.head(),
            Self::Unknown(block) => block.head(),
        }
    }

    fn put_body<B: ByteOrder>(&self, out: &mut Vec<u8>) -> Result<(), Unput> {
        match self {
            Self::SectionHeader(block) => block.put_body::<B>(out),
            Self::InterfaceDescription(block) => block.put_body::<B>(out),
            Self::Packet(block) => block.put_body::<B>(out),
            Self::SimplePacket(block) => block.put_body::<B>(out),
            Self::NameResolution(block) => block.put_body::<B>(out),
            Self::InterfaceStatistics(block) => block.put_body::<B>(out),
            Self::EnhancedPacket(block) => block.put_body::<B>(out),
            Self::SystemdJournalExport(block) => block.put_body::<B>(out),
            Self::Unknown(block) => block.put_body::<B>(out),
        }
    }
}

// Appends the timestamp and the two lengths of a packet.
fn put_stored_head<B: ByteOrder>(
    out: &mut Vec<u8>,
    timestamp: u64,
    captured_len: u32,
    original_len: u32,
) -> Result<(), AllocError>
    ensures { OnOk result (out.new.items ≡ out.old.items ++ packet_head_text B.bytes_of timestamp captured_len original_len) }
{
    put_time::<B>(out, timestamp)?;
    put_u32::<B>(out, captured_len)?;
    put_u32::<B>(out, original_len)
}

// Returns the number that is written for a link type in an interface description.
fn link_number(link: DataLink) -> Result<u16, Unwritable>
    ensures { TellsLink link result }
{
    let number = u32::from(link);
    if number > 65535 {
        return Err(Unwritable::LinkTooLarge);
    }
    if DataLink::from(number) != link {
        return Err(Unwritable::LinkMisnamed);
    }
    Ok(number as u16)
}
