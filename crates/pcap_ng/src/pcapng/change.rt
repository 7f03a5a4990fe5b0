//! The changes that blocks make to the section and interfaces in force.

ghost use Rattle.std.specs.Prelude.{◌≡◌, IfOk};
ghost use Rattle.pcap_core.specs.Answer.{TellsWhere, number_in};
ghost use Rattle.pcap_blocks.specs.InterfaceDescription.{InterfaceSays, InterfaceMayGrow, InterfaceIsBorrowed, interface_of};
ghost use Rattle.pcap_blocks.specs.SectionHeader.{SectionIsBorrowed};
ghost use Rattle.pcap_ng.specs.Changes.{ChangeTells, ChangeIsBorrowed, FirstTells};
ghost use Rattle.pcap_ng.specs.Frames.{framed_of};

use crate::pcapng::block::Block;
use byteorder::{BigEndian, LittleEndian};
use pcap_blocks::{BlockType, InterfaceDescriptionBlock, ParsedBlock, SectionHeaderBlock};
use pcap_core::rules::Rule;
use pcap_core::{Endianness, PcapError, ResultParsing};
use std::alloc::Global;

/// A change that a block makes to what is in force, after the first section header of a capture.
#[derive(Debug, Drop)]
pub enum Change<'a> {
    /// The section with this header, which has no interface yet.
    Section(SectionHeaderBlock<'a>),
    /// One more interface of the section in force.
    Interface(InterfaceDescriptionBlock<'a>),
    /// Nothing: what is in force stays unchanged.
    Nothing,
}

impl<'a> Block<'a> {
    /// Returns what the block puts in force after the first section header of a capture: its section, its interface, or nothing
    /// for other blocks. Only the bodies of section headers and interface descriptions are parsed, in the block's own byte order.
    ///
    /// Returns the errors of `parsed` for these two: `InvalidField`, `Utf8Error` or `IoError` for the first fault of the body,
    /// and `OutOfMemory` if it has options and their list can't grow.
    #[inline(always)]
    pub fn change(&self, alloc: Global) -> ResultParsing<Change<'_>>
        ensures tells { ChangeTells (framed_of self.now) result }
        ensures borrowed { IfOk result ChangeIsBorrowed }
    {
        match self.type_ {
            BlockType::SectionHeader => self.new_section(alloc),
            BlockType::InterfaceDescription => self.new_interface(alloc),
            _ => Ok(Change::Nothing),
        }
    }

    #[inline(never)]
    fn new_section(&self, alloc: Global) -> ResultParsing<Change<'_>>
        requires { self.now.type_ ≡ BlockType.SectionHeader }
        ensures tells { ChangeTells (framed_of self.now) result }
        ensures borrowed { IfOk result ChangeIsBorrowed }
    {
        let (_rest, section) = SectionHeaderBlock::from_slice(alloc, self.body.as_slice())?;
        Ok(Change::Section(section))
    }

    #[inline(never)]
    fn new_interface(&self, alloc: Global) -> ResultParsing<Change<'_>>
        requires { self.now.type_ ≡ BlockType.InterfaceDescription }
        ensures tells { ChangeTells (framed_of self.now) result }
        ensures borrowed { IfOk result ChangeIsBorrowed }
    {
        let (_rest, interface) = interface_in(self.endianness(), alloc, self.body.as_slice())?;
        Ok(Change::Interface(interface))
    }

    /// Returns the section that the block puts in force as the first block of a capture.
    ///
    /// Returns the errors of `parsed`, and then `InvalidField` by `SectionMissing` if the block is no section header.
    pub fn first_section(&self, alloc: Global) -> ResultParsing<SectionHeaderBlock<'_>>
        ensures tells { FirstTells (framed_of self.now) result }
        ensures borrowed { IfOk result SectionIsBorrowed }
    {
        match self.parsed(alloc)? {
            ParsedBlock::SectionHeader(section) => Ok(section),
            _ => Err(PcapError::from(Rule::SectionMissing)),
        }
    }
}

// Parses the body of an interface description in this byte order, and returns what follows it too.
fn interface_in<'a>(
    order: Endianness,
    alloc: Global,
    slice: &'a [u8],
) -> ResultParsing<(&'a [u8], InterfaceDescriptionBlock<'a>)>
    ensures tells { TellsWhere (InterfaceMayGrow (number_in order) slice.now) (InterfaceSays (number_in order) slice.now) interface_of result }
    ensures borrowed { IfOk result (λ x. InterfaceIsBorrowed x.1) }
{
    match order {
        Endianness::Big => InterfaceDescriptionBlock::from_slice::<BigEndian>(alloc, slice),
        Endianness::Little => InterfaceDescriptionBlock::from_slice::<LittleEndian>(alloc, slice),
    }
}
