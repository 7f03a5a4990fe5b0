//! Clocks of interfaces.

ghost use Rattle.std.specs.Prelude.{◌≡◌, [], length, map, option_map, slice_get, IfOk};
ghost use Rattle.pcap_blocks.specs.InterfaceDescription.{interface_of};
ghost use Rattle.pcap_blocks.specs.SectionHeader.{magic_order, section_of};
ghost use Rattle.pcap_ng.specs.State.{State, or_big, within};
ghost use Rattle.pcapfile_info.specs.InForce.{AreInForce, IsClocked, LeadsOn};
ghost use Rattle.pcapfile_info.specs.Sights.{Sees, place_of};
ghost use Rattle.pcapfile_info.specs.Totals.{IsBelow};

use crate::blocks::place_at;
use crate::seen::Seen;
use pcap_file::Endianness;
use pcap_file::pcapng::enhanced::EnhancedNumbers;
use pcap_file::pcapng::{
    BlockType, Clock, InterfaceDescriptionBlock, SectionHeaderBlock, Timestamp,
};
use std::alloc::{AllocError, Global};

/// The byte order of the current section, and the clocks of its interfaces.
#[derive(Drop)]
pub(crate) struct Clocks {
    pub(crate) alloc: Global,
    pub(crate) order: Endianness,
    pub(crate) clocks: Vec<Clock>,
}

// Returns the byte order that a section header's magic number names, or big-endian if it names none.
fn order_of(section: &SectionHeaderBlock<'static>) -> Endianness
    ensures { result ≡ or_big (magic_order (section_of section.now).magic) }
{
    if section.has_valid_magic() {
        section.endianness()
    } else {
        Endianness::Big
    }
}

// Converts a time in units of a clock to a timestamp. `None` if there is no clock.
#[inline(always)]
fn time_by(clock: Option<&Clock>, units: u64) -> Option<Timestamp>
    ensures { IsClocked (option_map (λ clock. clock.now) clock.entry) units result }
{
    match clock {
        None => None,
        Some(clock) => Some(clock.timestamp(units)),
    }
}

impl Clocks {
    /// Returns the byte order of a section that has no interface yet, without clocks.
    pub(crate) fn new(alloc: Global, section: &SectionHeaderBlock<'static>) -> Clocks
        ensures { AreInForce result (within (section_of section.now) []) }
    {
        Clocks {
            alloc,
            order: order_of(section),
            clocks: Vec::new(alloc),
        }
    }

    /// Updates the order and the clocks after a block of this type. The section and the interfaces are those after the block.
    pub(crate) fn follow(
        &mut self,
        type_: BlockType,
        section: &SectionHeaderBlock<'static>,
        interfaces: &[InterfaceDescriptionBlock<'static>],
    ) -> Result<(), AllocError>
        ensures { IfOk result (λ done. (before : State) → AreInForce self.old before
            → LeadsOn type_ before (within (section_of section.now) (map interface_of interfaces.now))
            → AreInForce self.new (within (section_of section.now) (map interface_of interfaces.now))) }
    {
        match type_ {
            BlockType::SectionHeader => {
                self.order = order_of(section);
                self.clocks.clear();
            }
            BlockType::InterfaceDescription => {
                if let Some(interface) = interfaces.last() {
                    self.clocks.push(interface.clock())?;
                }
            }
            _ => {}
        }
        Ok(())
    }

    /// Returns what the totals use of an enhanced packet. `described` interfaces are described so far; the last of them are
    /// those of the section.
    #[inline(always)]
    pub(crate) fn seen(&self, described: usize, packet: EnhancedNumbers) -> Seen
        ensures sees { Sees (place_of described (length self.now.clocks.items) packet.interface) packet.stored packet.original result }
        ensures time { IsClocked (slice_get self.now.clocks.items packet.interface) packet.units result.time }
        ensures below { IsBelow described result.interface }
    {
        Seen {
            interface: place_at(described, self.clocks.len(), packet.interface),
            time: time_by(self.clocks.get(packet.interface as usize), packet.units),
            stored: packet.stored as u64,
            original: packet.original,
        }
    }
}
