//! Options of blocks by name. Each call returns the value of the first option with its name, or None if there is none.

ghost use Rattle.std.specs.Prelude.{◌≡◌};
ghost use Rattle.std.specs.Option.{option_map};
ghost use Rattle.pcap_options.specs.Held.{string_in, number_in, first_under};
ghost use Rattle.pcap_blocks.specs.SectionHeader.{section_of};
ghost use Rattle.pcap_blocks.specs.InterfaceDescription.{interface_of};
ghost use Rattle.pcap_blocks.specs.EnhancedPacket.{enhanced_of};
ghost use Rattle.pcap_blocks.specs.Packet.{packet_of};
ghost use Rattle.pcap_blocks.specs.NameResolution.{names_of};
ghost use Rattle.pcap_blocks.specs.InterfaceStatistics.{statistics_of};

use crate::enhanced_packet::EnhancedPacketBlock;
use crate::interface_description::InterfaceDescriptionBlock;
use crate::interface_statistics::InterfaceStatisticsBlock;
use crate::name_resolution::NameResolutionBlock;
use crate::packet::PacketBlock;
use crate::section_header::SectionHeaderBlock;
use pcap_options::{first_number, first_string};

impl SectionHeaderBlock<'_> {
    /// Returns the first comment on the section.
    pub fn comment(&self) -> Option<&str>
        ensures { option_map (λ string. string.now) result ≡ first_under 1 string_in (section_of self.now).options }
    {
        first_string(&self.options, 1)
    }

    /// Returns the hardware on which the section was made.
    pub fn hardware(&self) -> Option<&str>
        ensures { option_map (λ string. string.now) result ≡ first_under 2 string_in (section_of self.now).options }
    {
        first_string(&self.options, 2)
    }

    /// Returns the operating system on which the section was made.
    pub fn os(&self) -> Option<&str>
        ensures { option_map (λ string. string.now) result ≡ first_under 3 string_in (section_of self.now).options }
    {
        first_string(&self.options, 3)
    }

    /// Returns the application that made the section.
    pub fn application(&self) -> Option<&str>
        ensures { option_map (λ string. string.now) result ≡ first_under 4 string_in (section_of self.now).options }
    {
        first_string(&self.options, 4)
    }
}

impl InterfaceDescriptionBlock<'_> {
    /// Returns the first comment on the interface.
    pub fn comment(&self) -> Option<&str>
        ensures { option_map (λ string. string.now) result ≡ first_under 1 string_in (interface_of self.now).options }
    {
        first_string(&self.options, 1)
    }

    /// Returns the name of the device.
    pub fn name(&self) -> Option<&str>
        ensures { option_map (λ string. string.now) result ≡ first_under 2 string_in (interface_of self.now).options }
    {
        first_string(&self.options, 2)
    }

    /// Returns the description of the device.
    pub fn description(&self) -> Option<&str>
        ensures { option_map (λ string. string.now) result ≡ first_under 3 string_in (interface_of self.now).options }
    {
        first_string(&self.options, 3)
    }

    /// Returns the interface's speed in bits per second.
    pub fn speed(&self) -> Option<u64>
        ensures { result ≡ first_under 8 number_in (interface_of self.now).options }
    {
        first_number(&self.options, 8)
    }

    /// Returns the operating system of the interface's machine.
    pub fn os(&self) -> Option<&str>
        ensures { option_map (λ string. string.now) result ≡ first_under 12 string_in (interface_of self.now).options }
    {
        first_string(&self.options, 12)
    }

    /// Returns the description of the interface's hardware.
    pub fn hardware(&self) -> Option<&str>
        ensures { option_map (λ string. string.now) result ≡ first_under 15 string_in (interface_of self.now).options }
    {
        first_string(&self.options, 15)
    }
}

impl EnhancedPacketBlock<'_> {
    /// Returns the first comment on the packet.
    pub fn comment(&self) -> Option<&str>
        ensures { option_map (λ string. string.now) result ≡ first_under 1 string_in (enhanced_of self.now).packet.options }
    {
        first_string(&self.options, 1)
    }
}

impl PacketBlock<'_> {
    /// Returns the first comment on the packet.
    pub fn comment(&self) -> Option<&str>
        ensures { option_map (λ string. string.now) result ≡ first_under 1 string_in (packet_of self.now).packet.options }
    {
        first_string(&self.options, 1)
    }
}

impl NameResolutionBlock<'_> {
    /// Returns the first comment on the names.
    pub fn comment(&self) -> Option<&str>
        ensures { option_map (λ string. string.now) result ≡ first_under 1 string_in (names_of self.now).options }
    {
        first_string(&self.options, 1)
    }
}

impl InterfaceStatisticsBlock<'_> {
    /// Returns the first comment on the statistics.
    pub fn comment(&self) -> Option<&str>
        ensures { option_map (λ string. string.now) result ≡ first_under 1 string_in (statistics_of self.now).options }
    {
        first_string(&self.options, 1)
    }

    /// Returns the number of packets that the interface received.
    pub fn received(&self) -> Option<u64>
        ensures { result ≡ first_under 4 number_in (statistics_of self.now).options }
    {
        first_number(&self.options, 4)
    }

    /// Returns the number of packets that the interface dropped.
    pub fn dropped(&self) -> Option<u64>
        ensures { result ≡ first_under 5 number_in (statistics_of self.now).options }
    {
        first_number(&self.options, 5)
    }
}
