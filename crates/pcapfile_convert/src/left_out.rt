//! What a conversion to a classic capture leaves out.

use byteorder::{BigEndian, ByteOrder, LittleEndian};
use pcap_file::pcapng::enhanced::split_body;
use pcap_file::pcapng::{BlockType, InterfaceDescriptionBlock, InterfaceDescriptionOption};
use pcap_file::{Endianness, PcapNgReader};
use pcapfile_files::{Console, Count, Shown};
use pcapfile_run::holds_packet;
use std::io;

/// The block type of decryption secrets.
const SECRETS: u32 = 10;

/// How much a conversion left out of a PcapNg capture, by kind. A classic capture keeps one link type, one snapshot length and the
/// packets without their options.
#[derive(Clone, Copy, Default)]
pub struct LeftOut {
    /// Packets that have no place in a classic capture.
    packets: u64,
    /// Packets that were written without their options.
    bare_packets: u64,
    /// Section headers after the first one.
    sections: u64,
    /// Interfaces after the first one.
    interfaces: u64,
    /// Blocks of name resolution.
    names: u64,
    /// Blocks of interface statistics.
    statistics: u64,
    /// Blocks of decryption secrets.
    secrets: u64,
    /// All other blocks.
    others: u64,
    /// Whether the first section or the first interface has options that were left out.
    has_bare_opening: bool,
}

impl LeftOut {
    /// Notes whether the first section of a capture has options.
    pub(crate) fn note_section<R>(&mut self, reader: &PcapNgReader<R>) {
        if !reader.section().options.is_empty() {
            self.has_bare_opening = true;
        }
    }

    /// Notes whether the first interface has options besides those of its clock.
    pub(crate) fn note_interface(&mut self, interface: &InterfaceDescriptionBlock<'static>) {
        if !interface.options.iter().all(is_of_clock) {
            self.has_bare_opening = true;
        }
    }

    /// Counts the block that the reader lends, whose packet was written if it has one and `is_written` is set.
    pub(crate) fn count<R>(&mut self, reader: &PcapNgReader<R>, is_written: bool) {
        let order = reader.section().endianness();
        let Some(type_) = type_of(order, reader.text()) else {
            return;
        };
        if is_written && !has_options(order, reader.body()) {
            return;
        }
        let count = match type_ {
            _ if is_written => &mut self.bare_packets,
            type_ if holds_packet(type_) => &mut self.packets,
            BlockType::SectionHeader => &mut self.sections,
            BlockType::InterfaceDescription => &mut self.interfaces,
            BlockType::NameResolution => &mut self.names,
            BlockType::InterfaceStatistics => &mut self.statistics,
            BlockType::Unknown(SECRETS) => &mut self.secrets,
            _ => &mut self.others,
        };
        *count = count.saturating_add(1);
    }

    /// Adds this many packets to what was left out.
    pub(crate) fn add_packets(&mut self, count: u64) {
        self.packets = self.packets.saturating_add(count);
    }

    /// Takes this many interfaces away from what was left out. They are made of the headers of classic captures.
    pub(crate) fn forget_interfaces(&mut self, count: u64) {
        self.interfaces = self.interfaces.saturating_sub(count);
    }

    // Returns the numbers of packets and blocks that were left out, by kind.
    fn counts<'a>(&self) -> [Count<'a>; 7] {
        [
            Count(
                self.packets,
                "packet has no place there, and is left out",
                "packets have no place there, and are left out",
            ),
            Count(
                self.sections,
                "block of sections is left out",
                "blocks of sections are left out",
            ),
            Count(
                self.interfaces,
                "block of interfaces is left out",
                "blocks of interfaces are left out",
            ),
            Count(
                self.names,
                "block of names is left out",
                "blocks of names are left out",
            ),
            Count(
                self.statistics,
                "block of statistics is left out",
                "blocks of statistics are left out",
            ),
            Count(
                self.secrets,
                "block of secrets is left out",
                "blocks of secrets are left out",
            ),
            Count(
                self.others,
                "block of other types is left out",
                "blocks of other types are left out",
            ),
        ]
    }

    /// Prints what was left out of the capture of this name, and how often.
    pub fn tell(&self, console: &Console, name: &str) -> io::Result<()> {
        let from = Shown(name);
        for left_out in self.counts() {
            if left_out.0 > 0 {
                eprintln!(console.for_line(); "pcapfile: {from}: {left_out}")?;
            }
        }
        if self.bare_packets > 0 {
            let packets = Count(self.bare_packets, "packet", "packets");
            eprintln!(console.for_line();
                "pcapfile: {from}: the options of {packets} are left out"
            )?;
        }
        if self.has_bare_opening {
            eprintln!(console.for_line();
                "pcapfile: {from}: options of the first section and interface are left out"
            )?;
        }
        Ok(())
    }
}

// Returns whether an option of an interface is about its clock. A conversion keeps what these say, since it converts all times.
fn is_of_clock(option: &InterfaceDescriptionOption) -> bool {
    matches!(
        option,
        InterfaceDescriptionOption::IfTsResol(_) | InterfaceDescriptionOption::IfTsOffset(_)
    )
}

/// Returns the type of the block with these bytes.
pub(crate) fn type_of(order: Endianness, text: &[u8]) -> Option<BlockType> {
    if text.len() < 4 {
        return None;
    }
    Some(BlockType::from(match order {
        Endianness::Big => BigEndian::read_u32(text),
        Endianness::Little => LittleEndian::read_u32(text),
    }))
}

// Returns whether options follow the data in the body of an enhanced packet or of an obsolete packet block, whose bodies have the
// lengths of the data at the same place.
fn has_options(order: Endianness, body: &[u8]) -> bool {
    let options = match order {
        Endianness::Big => split_body::<BigEndian>(body).map(|parts| parts.options),
        Endianness::Little => split_body::<LittleEndian>(body).map(|parts| parts.options),
    };
    match options {
        Some([first, second, _, _, ..]) => *first != 0 || *second != 0,
        _ => false,
    }
}
