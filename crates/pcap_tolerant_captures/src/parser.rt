//! A lenient parser of PcapNg captures, which leaves no block out for the flaws of its body.

ghost use Rattle.std.specs.Prelude.{IsSome};
ghost use Rattle.pcap_blocks.specs.SectionHeader.{magic_order};

use crate::block::BlockAsIs;
use crate::kept::{add_in, first_section, section_in};
use pcap_blocks::{BlockType, InterfaceDescriptionBlock, SectionHeaderBlock, Timestamp};
use pcap_core::{Endianness, ResultParsing};
use pcap_ng::pcapng::Block;
use pcap_tolerant_blocks::{Flaw, InterfacesAsIs};
use std::alloc::Global;

/// A lenient parser of a PcapNg capture. It holds the section in force and its interfaces, including those with flaws, and
/// returns a block for each slice that begins with one.
#[derive(Drop)]
pub struct PcapNgParserAsIs {
    alloc: Global,
    section: SectionHeaderBlock<'static>,
    interfaces: InterfacesAsIs,
    pub ghost valid: { IsSome (magic_order section.magic) },
}

/// The result of opening a capture: the parser behind its first block, and that block read leniently.
#[derive(Drop)]
pub struct OpenedAsIs<'a> {
    /// The parser behind the section header.
    pub parser: PcapNgParserAsIs,
    /// The section header, with its flaws.
    pub first: BlockAsIs<'a>,
}

impl PcapNgParserAsIs {
    ghost use Rattle.std.specs.Prelude.{◌≡◌, length, option_map, IfOk, OnErr};
    ghost use Rattle.pcap_core.specs.Answer.{TellsWhere};
    ghost use Rattle.pcap_core.specs.Bytes.{IsBorrowed};
    ghost use Rattle.pcap_blocks.specs.SectionHeader.{section_of};
    ghost use Rattle.pcap_blocks.specs.InterfaceDescription.{interface_of};
    ghost use Rattle.pcap_ng.specs.Frames.{framed_of};
    ghost use Rattle.pcap_tolerant_blocks.specs.InForce.{IsTimeBy, known};
    ghost use Rattle.pcap_tolerant_captures.specs.Blocks.{AsIsSays, MayGrow, item_of, opened_of};
    ghost use Rattle.pcap_tolerant_captures.specs.Outlines.{known_order};
    ghost use Rattle.pcap_tolerant_captures.specs.State.{FollowTells, opening, order_at, section_in_force, interfaces_in_force, state_of};

    /// Reads the section header at the front of a slice, and returns what follows it, the parser behind it, and the block.
    ///
    /// The parser reads the block as big-endian, and a section header in the byte order of its magic number. Flaws of the
    /// section cause no error.
    ///
    /// Returns `IncompleteBuffer` with the number of missing bytes. Returns `InvalidField` for the first rule that the frame
    /// breaks. It also returns `InvalidField` by V10 if the block is no section header, whatever its body is, and by V11 if its
    /// body is under 16 bytes. Returns `OutOfMemory` if the block is a whole section header and something can't grow.
    pub fn new(alloc: Global, slice: &[u8]) -> ResultParsing<(&[u8], OpenedAsIs<'_>)>
        ensures tells { TellsWhere (MayGrow opening slice.now) (AsIsSays opening slice.now) opened_of result }
        ensures borrowed { IfOk result (λ x. IsBorrowed x.1.first.block.body) }
    {
        let (rest, block) = Block::from_slice(Endianness::Big, slice)?;
        let (section, flaws) = first_section(alloc, &block)?;
        let parser = PcapNgParserAsIs {
            alloc,
            section,
            interfaces: InterfacesAsIs::new(alloc),
        };
        let first = BlockAsIs { block, flaws };
        Ok((rest, OpenedAsIs { parser, first }))
    }

    /// Reads the block at the front of a slice leniently, and returns what follows it and the block. Its body is borrowed from
    /// the slice.
    ///
    /// A section header becomes the section in force, with no interface yet. An interface description adds an interface, even
    /// if its body has no room for its head, so that later interfaces keep their numbers.
    ///
    /// Returns `IncompleteBuffer` with the number of missing bytes, 12 for the empty slice. Returns `InvalidField` for the
    /// first rule that the block's frame breaks, and by V11 if the body of a section header is under 16 bytes. Returns
    /// `OutOfMemory` if the block is a whole section header or interface description and something can't grow. A call that
    /// returns an error leaves the section and its interfaces unchanged.
    ///
    /// Any other fault of a body is a flaw. Where `next_block` of the strict parser returns a block, this returns the same
    /// block without a flaw. Where `next_block` refuses a block for its body, this returns that block, and that fault is its
    /// first flaw.
    pub fn next_block_as_is<'a>(
        &mut self,
        slice: &'a [u8],
    ) -> ResultParsing<(&'a [u8], BlockAsIs<'a>)>
        ensures tells { TellsWhere (MayGrow (state_of self.old) slice.now) (AsIsSays (state_of self.old) slice.now) (item_of (state_of self.new)) result }
        ensures borrowed { IfOk result (λ x. IsBorrowed x.1.block.body) }
        ensures unchanged { OnErr result (state_of self.new ≡ state_of self.old) }
    {
        let (rest, block) = Block::from_slice(self.order(), slice)?;
        let flaws = self.follow(&block)?;
        Ok((rest, BlockAsIs { block, flaws }))
    }

    /// Returns the section in force, read leniently.
    pub fn section(&self) -> &SectionHeaderBlock<'static>
        ensures { section_of result.now ≡ section_in_force self.now }
    {
        &self.section
    }

    /// Returns the number of interfaces in the section in force so far, including those whose body has no room for their head.
    pub fn interface_count(&self) -> usize
        ensures { result ≡ length (interfaces_in_force self.now) }
    {
        self.interfaces.len()
    }

    /// Returns the interface with this number, read leniently. Returns None past the last interface, and for an interface whose
    /// body has no room for its head.
    pub fn interface(&self, number: u32) -> Option<&InterfaceDescriptionBlock<'static>>
        ensures { option_map (λ interface. interface_of interface.now) result ≡ known number (interfaces_in_force self.now) }
    {
        self.interfaces.get(number)
    }

    /// Returns the time of `units` units by the clock of the interface with this number, rounded down to whole nanoseconds.
    /// Returns None if there is no known interface with that number.
    pub fn timestamp(&self, number: u32, units: u64) -> Option<Timestamp>
        ensures { IsTimeBy (known number (interfaces_in_force self.now)) units result }
    {
        self.interfaces.timestamp(number, units)
    }

    // Returns a parser in a section of this byte order that has no options, no length and no interfaces.
    #[tactic(auto, unfolding(pcap_ng::specs::State::order_at, pcap_blocks::specs::SectionHeader::magic_order))]
    pub(crate) fn bare(alloc: Global, order: Endianness) -> PcapNgParserAsIs
        ensures { known_order (state_of result) ≡ Some order }
    {
        let section = SectionHeaderBlock {
            magic: match order {
                Endianness::Big => 0x1A2B3C4D,
                Endianness::Little => 0x4D3C2B1A,
            },
            major_version: 1,
            minor_version: 0,
            section_length: -1,
            options: Vec::new(alloc),
        };
        PcapNgParserAsIs {
            alloc,
            section,
            interfaces: InterfacesAsIs::new(alloc),
        }
    }

    // Returns the byte order of all blocks except section headers.
    #[tactic(auto, unfolding(pcap_ng::specs::State::order_at))]
    pub(crate) fn order(&self) -> Endianness
        ensures { result ≡ order_at (state_of self.now) }
    {
        self.section.endianness()
    }

    // Puts a section or an interface in force and returns its flaws. A call that returns an error changes nothing.
    fn follow(&mut self, block: &Block) -> ResultParsing<Vec<Flaw>>
        ensures { FollowTells (state_of self.old) (state_of self.new) (framed_of block.now) result }
    {
        match block.type_ {
            BlockType::SectionHeader => self.begin_section(block),
            BlockType::InterfaceDescription => self.add_interface(block),
            _ => Ok(Vec::new(self.alloc)),
        }
    }

    fn begin_section(&mut self, block: &Block) -> ResultParsing<Vec<Flaw>>
        requires { block.now.type_ ≡ BlockType.SectionHeader }
        ensures { FollowTells (state_of self.old) (state_of self.new) (framed_of block.now) result }
    {
        let (section, flaws) = section_in(self.alloc, block)?;
        self.section = section;
        self.interfaces = InterfacesAsIs::new(self.alloc);
        Ok(flaws)
    }

    fn add_interface(&mut self, block: &Block) -> ResultParsing<Vec<Flaw>>
        requires { block.now.type_ ≡ BlockType.InterfaceDescription }
        ensures { FollowTells (state_of self.old) (state_of self.new) (framed_of block.now) result }
    {
        add_in(
            block.endianness(),
            &mut self.interfaces,
            self.alloc,
            block.body.as_slice(),
        )
    }
}
