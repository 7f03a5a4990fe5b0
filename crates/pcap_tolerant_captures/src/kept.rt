//! Sections and interfaces that the lenient parser keeps.

ghost use Rattle.std.specs.Prelude.{◌≡◌, map, IfOk, IfErr, OnErr};
ghost use Rattle.pcap_core.specs.Answer.{number_in};
ghost use Rattle.pcap_core.specs.Errors.{IsMemory};
ghost use Rattle.pcap_ng.specs.Frames.{framed_of};
ghost use Rattle.pcap_tolerant_blocks.specs.Flaws.{said_of};
ghost use Rattle.pcap_tolerant_blocks.specs.InForce.{Adds, in_force};
ghost use Rattle.pcap_tolerant_captures.specs.State.{FirstTells, SectionTells};

use byteorder::{BigEndian, LittleEndian};
use pcap_blocks::{BlockType, SectionHeaderBlock};
use pcap_core::rules::Rule;
use pcap_core::{Endianness, PcapError, ResultParsing};
use pcap_ng::pcapng::Block;
use pcap_tolerant_blocks::{Flaw, InterfacesAsIs, SectionAsIs};
use std::alloc::Global;

// Reads a block as a section header leniently, and returns the section with bytes of its own and its flaws.
pub(crate) fn section_in(
    alloc: Global,
    block: &Block,
) -> ResultParsing<(SectionHeaderBlock<'static>, Vec<Flaw>)>
    ensures { SectionTells (framed_of block.now).body result }
{
    let (_rest, read) = SectionAsIs::from_slice(alloc, block.body.as_slice())?;
    let SectionAsIs { section, flaws } = read;
    Ok((section.into_owned(alloc)?, flaws))
}

// Reads the first block of a capture as a section header leniently, and returns the section and its flaws.
pub(crate) fn first_section(
    alloc: Global,
    block: &Block,
) -> ResultParsing<(SectionHeaderBlock<'static>, Vec<Flaw>)>
    ensures { FirstTells (framed_of block.now) result }
{
    match block.type_ {
        BlockType::SectionHeader => section_in(alloc, block),
        _ => Err(PcapError::from(Rule::SectionMissing)),
    }
}

// Puts the interface of a body in this byte order in force, and returns its flaws.
pub(crate) fn add_in(
    order: Endianness,
    interfaces: &mut InterfacesAsIs,
    alloc: Global,
    body: &[u8],
) -> ResultParsing<Vec<Flaw>>
    ensures added { IfOk result (λ flaws. Adds (number_in order) body.now (map said_of flaws.items) (in_force interfaces.old) (in_force interfaces.new)) }
    ensures memory { IfErr result IsMemory }
    ensures stays { OnErr result (in_force interfaces.new ≡ in_force interfaces.old) }
{
    match order {
        Endianness::Big => interfaces.add::<BigEndian>(alloc, body),
        Endianness::Little => interfaces.add::<LittleEndian>(alloc, body),
    }
}
