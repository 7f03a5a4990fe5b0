//! Counts of the blocks, and of the options of section headers, that a merge leaves out of a capture.

ghost use Rattle.std.specs.Prelude.{◌≡◌, length};
ghost use Rattle.pcap_blocks.specs.SectionHeader.{section_of};
ghost use Rattle.pcapfile_merge.specs.LeavingOut.{nothing, with_block, with_section, without_options};

use pcap_file::pcapng::{BlockType, SectionHeaderBlock};

/// The block type of decryption secrets.
pub(crate) const SECRETS: u32 = 10;

/// How many blocks without a packet a merge left out of a capture, by kind, and how many options of section headers.
#[derive(Clone, Copy, Debug, PartialEq, Eq)]
pub struct LeftOut {
    /// Blocks of name resolution.
    pub names: u64,
    /// Blocks of interface statistics.
    pub statistics: u64,
    /// Blocks of decryption secrets.
    pub secrets: u64,
    /// All other blocks.
    pub others: u64,
    /// Options of section headers.
    pub section_options: u64,
}

impl LeftOut {
    // Returns the counts before any block.
    pub(crate) fn nothing() -> LeftOut
        ensures { result ≡ nothing }
    {
        LeftOut {
            names: 0,
            statistics: 0,
            secrets: 0,
            others: 0,
            section_options: 0,
        }
    }

    // Counts the options of a section header that has this many.
    pub(crate) fn count_options(&mut self, options: usize)
        ensures { self.new ≡ with_section options self.old }
    {
        self.section_options = self.section_options.saturating_add(options as u64);
    }

    // Takes the options of section headers away from the counts.
    pub(crate) fn keep_options(&mut self)
        ensures { self.new ≡ without_options self.old }
    {
        self.section_options = 0;
    }

    // Counts a block of this type, or its options if it is a section header, where the header of its section has this many. Interfaces and
    // packets aren't counted.
    pub(crate) fn count(&mut self, type_: BlockType, options: usize)
        ensures { self.new ≡ with_block options type_ self.old }
    {
        match type_ {
            BlockType::SectionHeader => self.count_options(options),
            BlockType::InterfaceDescription
            | BlockType::EnhancedPacket
            | BlockType::Packet
            | BlockType::SimplePacket => (),
            BlockType::NameResolution => self.names = self.names.saturating_add(1),
            BlockType::InterfaceStatistics => self.statistics = self.statistics.saturating_add(1),
            BlockType::Unknown(SECRETS) => self.secrets = self.secrets.saturating_add(1),
            _ => self.others = self.others.saturating_add(1),
        }
    }
}

// Returns how many options the header of a section has.
pub(crate) fn options_of(section: &SectionHeaderBlock<'_>) -> usize
    ensures { result ≡ length (section_of section.now).options }
{
    section.options.len()
}
