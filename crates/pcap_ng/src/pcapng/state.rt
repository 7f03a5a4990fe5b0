//! The section in force and its interfaces.

ghost use Rattle.std.specs.Prelude.{IsSome};
ghost use Rattle.pcap_blocks.specs.InterfaceDescription.{interface_of};
ghost use Rattle.pcap_blocks.specs.SectionHeader.{magic_order};

use crate::pcapng::block::Block;
use crate::pcapng::change::Change;
use pcap_blocks::{InterfaceDescriptionBlock, SectionHeaderBlock};
use pcap_core::{Endianness, ResultParsing};
use std::alloc::Global;

/// The section in force, and its interfaces so far.
#[derive(Drop)]
pub(crate) struct InForce {
    section: SectionHeaderBlock<'static>,
    interfaces: Vec<InterfaceDescriptionBlock<'static>>,
    pub ghost valid: { IsSome (magic_order section.magic) },
}

impl InForce {
    ghost use Rattle.std.specs.Prelude.{◌≡◌, [], map, option_map, slice_get};
    ghost use Rattle.pcap_blocks.specs.SectionHeader.{section_of};
    ghost use Rattle.pcap_ng.specs.Frames.{framed_of};
    ghost use Rattle.pcap_ng.specs.State.{state_in, order_at, within, with_interface, FollowTells, Keeps, OpensTells};

    // Returns what is in force after a first block.
    pub(crate) fn after(alloc: Global, block: &Block) -> ResultParsing<InForce>
        ensures { OpensTells (framed_of block.now) result }
    {
        let section = block.first_section(alloc)?.into_owned(alloc)?;
        Ok(InForce {
            section,
            interfaces: Vec::new(alloc),
        })
    }

    // Returns the byte order of blocks that are not section headers.
    #[tactic(auto, unfolding(crate::specs::State::order_at))]
    pub(crate) fn order(&self) -> Endianness
        ensures { result ≡ order_at (state_in self.now) }
    {
        self.section.endianness()
    }

    pub(crate) fn section(&self) -> &SectionHeaderBlock<'static>
        ensures { section_of result.now ≡ section_of self.now.section }
    {
        &self.section
    }

    pub(crate) fn interfaces(&self) -> &[InterfaceDescriptionBlock<'static>]
        ensures { map interface_of result.now ≡ map interface_of self.now.interfaces.items }
    {
        self.interfaces.as_slice()
    }

    // Returns the interface with this number. Interfaces count from 0 in the order of their blocks.
    pub(crate) fn interface(&self, number: u32) -> Option<&InterfaceDescriptionBlock<'static>>
        ensures { option_map (λ interface. interface_of interface.now) result ≡ slice_get (map interface_of self.now.interfaces.items) number }
    {
        self.interfaces.get(number as usize)
    }

    // Puts a block in force if it is a section header or an interface description. A call that fails changes nothing.
    #[inline(always)]
    pub(crate) fn follow(&mut self, alloc: Global, block: &Block) -> ResultParsing<()>
        ensures { FollowTells (state_in self.old) (state_in self.new) (framed_of block.now) result }
    {
        match block.change(alloc)? {
            Change::Section(section) => self.begin_section(alloc, section),
            Change::Interface(interface) => self.add_interface(alloc, interface),
            Change::Nothing => Ok(()),
        }
    }

    #[inline(never)]
    fn begin_section(&mut self, alloc: Global, section: SectionHeaderBlock) -> ResultParsing<()>
        requires { IsSome (magic_order section.magic) }
        ensures { Keeps (state_in self.old) (state_in self.new) (within (section_of section.entry) []) result }
    {
        self.section = section.into_owned(alloc)?;
        self.interfaces.clear();
        Ok(())
    }

    #[inline(never)]
    fn add_interface(
        &mut self,
        alloc: Global,
        interface: InterfaceDescriptionBlock,
    ) -> ResultParsing<()>
        ensures { Keeps (state_in self.old) (state_in self.new) (with_interface (state_in self.old) (interface_of interface.entry)) result }
    {
        let own = interface.into_owned(alloc)?;
        self.interfaces.push(own)?;
        Ok(())
    }
}
