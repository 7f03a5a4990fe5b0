//! The section in force and its interfaces, without their options.

use byteorder::{BigEndian, LittleEndian};
use pcap_file::pcapng::{Block, BlockType};
use pcap_file::{Endianness, PcapError, ResultParsing, Rule};
use pcap_tolerant_blocks::InterfaceOutline;
use std::alloc::Global;

/// The length of the shortest body of a section header, in bytes.
const SECTION: usize = 16;

/// The section in force and its interfaces, read leniently. Its memory grows with the number of interfaces, and not with their options.
#[derive(Drop)]
pub(crate) struct InForce {
    order: Endianness,
    /// An interface whose body has no room for its head is `None`, so that later interfaces keep their numbers.
    interfaces: Vec<Option<InterfaceOutline>>,
}

impl InForce {
    /// Returns what the section header at the front of these bytes puts in force, and what follows it. Its errors are those of
    /// `PcapNgParserAsIs::new`.
    pub(crate) fn open(alloc: Global, bytes: &[u8]) -> ResultParsing<(&[u8], InForce)> {
        let (rest, block) = Block::from_slice(Endianness::Big, bytes)?;
        if !matches!(block.type_, BlockType::SectionHeader) {
            return Err(PcapError::from(Rule::SectionMissing));
        }
        let order = order_of(&block)?;
        let interfaces = Vec::new(alloc);
        Ok((rest, InForce { order, interfaces }))
    }

    /// Puts a section or an interface at the front of these bytes in force, and returns what follows the block there. Its errors are those
    /// of `PcapNgParserAsIs::next_block_as_is`.
    pub(crate) fn follow<'a>(&mut self, bytes: &'a [u8]) -> ResultParsing<&'a [u8]> {
        let (rest, block) = Block::from_slice(self.order, bytes)?;
        match block.type_ {
            BlockType::SectionHeader => {
                self.order = order_of(&block)?;
                self.interfaces.clear();
            }
            BlockType::InterfaceDescription => {
                self.interfaces
                    .push(outline_of(self.order, block.body.as_slice()))?;
            }
            _ => {}
        }
        Ok(rest)
    }

    /// Returns the byte order of the section.
    pub(crate) fn order(&self) -> Endianness {
        self.order
    }

    /// Returns the number of interfaces so far.
    pub(crate) fn count(&self) -> usize {
        self.interfaces.len()
    }

    /// Returns the interface with this number, if there is one whose body has room for its head.
    pub(crate) fn interface(&self, number: u32) -> Option<InterfaceOutline> {
        *self.interfaces.get(number as usize)?
    }
}

// Returns the byte order of the section of this header.
fn order_of(block: &Block<'_>) -> ResultParsing<Endianness> {
    if block.body.as_slice().len() < SECTION {
        return Err(PcapError::from(Rule::SectionTooShort));
    }
    Ok(block.endianness())
}

// Returns the interface in a body in this byte order.
fn outline_of(order: Endianness, body: &[u8]) -> Option<InterfaceOutline> {
    match order {
        Endianness::Big => InterfaceOutline::from_slice::<BigEndian>(body),
        Endianness::Little => InterfaceOutline::from_slice::<LittleEndian>(body),
    }
}
