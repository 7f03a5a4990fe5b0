//! PcapNg captures whose first section header is lost.

use crate::describing::names_a_near_interface;
use crate::in_force::InForce;
use crate::rows::SECTION;
use pcap_file::{Endianness, PcapError, PcapNgWriter, ResultParsing};
use pcap_tolerant_captures::first_blocks;
use std::alloc::Global;

/// The fewest blocks in a row that are taken for a section without its header.
const FEWEST: u64 = 2;

/// What became of the first section header.
#[derive(Clone, Copy)]
pub enum FirstSection {
    /// It is there, or there are no blocks before it.
    Found,
    /// It is lost, and so the blocks before the next one are left out.
    Lost,
    /// It was lost, and one of this byte order is written.
    Written(Endianness),
}

/// Blocks without a section header before them.
#[derive(Clone, Copy)]
pub(crate) struct Lost {
    /// Their byte order.
    pub(crate) order: Endianness,
    /// The number of bytes before the first of them.
    pub(crate) place: usize,
    /// The number of blocks in a row.
    pub(crate) blocks: u64,
    /// Whether the row reaches the end of the bytes.
    is_to_end: bool,
}

impl Lost {
    // Returns whether these blocks are more likely than those in another byte order. Blocks with small lengths also look like blocks in the
    // other order that begin within them, but for the last one.
    fn is_likelier(&self, other: &Lost) -> bool {
        if self.is_to_end == other.is_to_end {
            return self.blocks > other.blocks;
        }
        self.is_to_end
    }
}

/// Returns the header of a section in this byte order.
pub(crate) fn section_text(alloc: Global, order: Endianness) -> ResultParsing<Vec<u8>> {
    let writer = PcapNgWriter::with_endianness(alloc, order, Vec::new(alloc))?;
    Ok(writer.into_writer())
}

/// Returns the blocks at the front of these bytes that have no section header before them. If there are some in both byte orders, they
/// are those in the order with the row that reaches the end, or that is longer.
pub(crate) fn lost_blocks(alloc: Global, bytes: &[u8]) -> ResultParsing<Option<Lost>> {
    let little = lost_blocks_in(alloc, Endianness::Little, bytes)?;
    let big = lost_blocks_in(alloc, Endianness::Big, bytes)?;
    Ok(match (little, big) {
        (Some(little), Some(big)) if big.is_likelier(&little) => Some(big),
        (None, big) => big,
        (little, _) => little,
    })
}

/// Returns the blocks in this byte order at the front of these bytes that have no section header before them.
pub(crate) fn lost_blocks_in(
    alloc: Global,
    order: Endianness,
    bytes: &[u8],
) -> ResultParsing<Option<Lost>> {
    let header = section_text(alloc, order)?;
    let (_rest, mut in_force) = InForce::open(alloc, header.as_slice())?;
    let Some(place) = first_blocks(order, bytes) else {
        return Ok(None);
    };
    let row = bytes.get(place..).unwrap_or_default();
    let (blocks, is_to_end) = blocks_in_a_row(&mut in_force, row)?;
    if blocks < FEWEST {
        return Ok(None);
    }
    Ok(Some(Lost {
        order,
        place,
        blocks,
        is_to_end,
    }))
}

// Returns the number of blocks that follow each other from the front of these bytes, and whether they reach the end or a section header.
fn blocks_in_a_row(in_force: &mut InForce, bytes: &[u8]) -> ResultParsing<(u64, bool)> {
    let mut left = bytes;
    let mut blocks: u64 = 0;
    for _ in 0..u64::MAX {
        if left.starts_with(&SECTION) {
            return Ok((blocks, true));
        }
        if !names_a_near_interface(in_force, left) {
            break;
        }
        match in_force.follow(left) {
            Ok(rest) => left = rest,
            Err(PcapError::OutOfMemory(error)) => return Err(PcapError::OutOfMemory(error)),
            Err(_) => break,
        }
        blocks = blocks.saturating_add(1);
    }
    Ok((blocks, left.is_empty()))
}
