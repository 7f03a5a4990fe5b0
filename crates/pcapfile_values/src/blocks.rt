//! Blocks as a program in C sees them, and the state between two blocks.

ghost use Rattle.std.specs.Prelude.{◌≡◌, ◌<◌, length, None, IsErrAnd, IfOk, IsSome};
ghost use Rattle.pcap_core.specs.declared.rules.Rule.TheVariants.{SectionMagic};
ghost use Rattle.pcap_core.specs.Faults.{Names};
ghost use Rattle.pcap_core.specs.Bytes.{IsBorrowed};
ghost use Rattle.pcap_blocks.specs.SectionHeader.{magic_order, section_of};
ghost use Rattle.pcap_ng.specs.Frames.{framed_of};
ghost use Rattle.pcap_ng.specs.State.{State};
ghost use Rattle.pcapfile_values.specs.Blocks.{ShowsState, ShowsSection, ShowsBlock, order_shown, TellsSection, LeadsTells, NextTells};

use pcap_core::rules::Rule;
use pcap_core::{CowBytes, Endianness, PcapError, ResultParsing};
use pcap_ng::pcapng::{Block, Change, SectionHeaderBlock};
use std::alloc::Global;

/// What the reader keeps between two blocks of a capture: the current section. In C: `pcapfile_section`.
#[repr(C)]
#[derive(Clone, Copy)]
pub struct PcapfileSection {
    /// The magic number of the current section, read high byte first, or 0 before the first block.
    pub magic_number: u32,
    pub version_major: u16,
    pub version_minor: u16,
    /// How many interfaces the section has so far.
    pub interfaces: u32,
}

/// A block: the number of its type, and its body, which is borrowed from the capture. In C: `pcapfile_block`.
#[repr(C)]
#[derive(Clone, Copy)]
pub struct PcapfileBlock<'a> {
    pub type_: u32,
    pub body: &'a [u8],
}

impl PcapfileSection {
    /// Returns the byte order that the magic number names, or None if it names none.
    #[tactic(auto, unfolding(pcap_blocks::specs::SectionHeader::magic_order))]
    pub fn endianness(&self) -> Option<Endianness>
        ensures { result ≡ magic_order self.now.magic_number }
    {
        match self.magic_number {
            0x1A2B3C4D => Some(Endianness::Big),
            0x4D3C2B1A => Some(Endianness::Little),
            _ => None,
        }
    }

    /// Returns the byte order of a block that is no section header, or None if the magic number is invalid.
    pub fn order(&self) -> Option<Endianness>
        ensures { result ≡ order_shown self.now.magic_number }
    {
        match self.magic_number {
            0 => Some(Endianness::Big),
            _ => self.endianness(),
        }
    }

    /// Reads the block at the front of a slice. Returns the rest, the block, and the section in force after it.
    pub fn next_block<'a>(
        &self,
        alloc: Global,
        slice: &'a [u8],
    ) -> ResultParsing<(&'a [u8], (PcapfileBlock<'a>, PcapfileSection))>
        ensures said { (q : State) → ShowsState self.now q → NextTells q slice.now result }
        ensures refused { order_shown self.now.magic_number ≡ None → IsErrAnd result (Names SectionMagic) }
        ensures shorter { IfOk result (λ x. length x.0.now < length slice.now) }
    {
        let Some(order) = self.order() else {
            return Err(PcapError::from(Rule::SectionMagic));
        };
        let (rest, block) = Block::from_slice(order, slice)?;
        let next = self.led(alloc, &block)?;
        Ok((rest, (PcapfileBlock::new(block), next)))
    }

    // Returns the section in force after a block.
    fn led(&self, alloc: Global, block: &Block) -> ResultParsing<PcapfileSection>
        ensures { (q : State) → ShowsState self.now q → LeadsTells q (framed_of block.now) result }
    {
        if self.magic_number == 0 {
            return Ok(PcapfileSection::opened(&block.first_section(alloc)?));
        }
        match block.change(alloc)? {
            Change::Section(section) => Ok(PcapfileSection::opened(&section)),
            Change::Interface(_interface) => Ok(PcapfileSection {
                interfaces: self.interfaces.saturating_add(1),
                ..*self
            }),
            Change::Nothing => Ok(*self),
        }
    }

    /// Returns the struct for a section that has no interface yet.
    pub fn opened(section: &SectionHeaderBlock) -> PcapfileSection
        requires { IsSome (magic_order section.now.magic) }
        ensures shows { ShowsSection result (section_of section.now) }
        ensures none { result.interfaces ≡ 0 }
    {
        PcapfileSection {
            magic_number: section.magic,
            version_major: section.major_version,
            version_minor: section.minor_version,
            interfaces: 0,
        }
    }
}

/// Returns the section that begins with a section header of this body.
pub fn section_in(alloc: Global, body: &[u8]) -> ResultParsing<PcapfileSection>
    ensures { TellsSection body.now result }
{
    let (_rest, section) = SectionHeaderBlock::from_slice(alloc, body)?;
    Ok(PcapfileSection::opened(&section))
}

impl<'a> PcapfileBlock<'a> {
    /// Returns the struct for a block that is borrowed from a capture.
    pub fn new(block: Block<'a>) -> PcapfileBlock<'a>
        requires { IsBorrowed block.body }
        ensures { ShowsBlock (framed_of block.entry) result }
    {
        let CowBytes::Borrowed(body) = block.body else {
            unreachable!()
        };
        PcapfileBlock {
            type_: u32::from(block.type_),
            body,
        }
    }
}
