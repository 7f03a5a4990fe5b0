//! Reads the blocks of PcapNg captures in memory leniently, with the flaws of their bodies.

ghost use Rattle.std.specs.Prelude.{◌≡◌, ◌≢◌, ℕ, List, [], None, IsErrAnd, IfOk, IfSome, map};
ghost use Rattle.pcap_core.specs.declared.rules.Rule.TheVariants.{SectionMagic};
ghost use Rattle.pcap_core.specs.Answer.{number_in};
ghost use Rattle.pcap_core.specs.Bytes.{IsBorrowed};
ghost use Rattle.pcap_core.specs.Faults.{Names};
ghost use Rattle.pcap_blocks.specs.declared.block_type.BlockType.TheVariants as types;
ghost use Rattle.pcap_ng.specs.Frames.{framed_of};
ghost use Rattle.pcap_tolerant_blocks.specs.EnhancedAsIs.{EnhancedText, enhanced_in, flaws_said as packet_flaws};
ghost use Rattle.pcap_tolerant_blocks.specs.Flaws.{said_of};
ghost use Rattle.pcap_tolerant_blocks.specs.InterfaceAsIs.{InterfaceText, interface_in, flaws_said as interface_flaws};
ghost use Rattle.pcap_tolerant_captures.specs.State.{State};
ghost use Rattle.pcapfile_values.specs.Blocks.{order_shown};
ghost use Rattle.pcapfile_c.specs.BlocksAsIs.{ShowsStanding, shown_flaw, ShowsFlaws, ShowsReading, said_in, IsOf, TellsSection, FindsNothing, FindsInterface};
ghost use Rattle.pcapfile_c.specs.BlocksAsIs.{FindsPacket, LeadsStanding, NextStands, TakesStanding, RefusesStanding};
ghost use Rattle.pcapfile_c.specs.Readers.{block_reader};

use byteorder::{BigEndian, LittleEndian};
use pcap_core::rules::Rule;
use pcap_core::{Endianness, PcapError, ResultParsing};
use pcap_ng::pcapng::{Block, BlockType};
use pcap_tolerant_blocks::{Broken, EnhancedAsIs, Flaw, InterfaceAsIs, SectionAsIs};
use pcapfile_values::blocks::{PcapfileBlock, PcapfileSection};
use pcapfile_values::bodies::{
    PcapfileInterface, PcapfileNgPacket, enhanced_shown, interface_shown,
};
use pcapfile_values::errors::{PcapfileError, tell};
use pcapfile_values::shown::PcapfileBytes;
use std::alloc::{AllocError, Global};

/// A flaw in the body of a block. In C: `pcapfile_block_flaw`.
#[repr(C)]
#[derive(Clone, Copy)]
pub struct PcapfileBlockFlaw {
    /// The status with which strict reading refuses such a body: 3 for a rule, 2 for a value that is too short, 4 for a string.
    pub status: i32,
    /// The number of the broken rule, under status 3. Otherwise 0.
    pub rule: u32,
    /// The code of the option whose value is flawed, or 0 if the flaw is in the rest of the body or in the list of options.
    pub code: u32,
}

/// A block that lenient reading returns: the number of its type, its body, and what the body contains. In C: `pcapfile_block_as_is`.
#[repr(C)]
#[derive(Clone, Copy)]
pub struct PcapfileBlockAsIs<'a> {
    pub type_: u32,
    /// 1 for an interface whose body has room for its head.
    pub has_interface: u8,
    /// 1 for an enhanced packet whose body has room for its head and its bytes.
    pub has_packet: u8,
    /// How many flaws the body has.
    pub flaws: usize,
    pub body: &'a [u8],
    /// The interface, with the first unit and the first offset that break no rule.
    pub interface: PcapfileInterface,
    pub packet: PcapfileNgPacket<'a>,
}

/// Reads the block at the front of `left` leniently, and moves `left` after it. Writes its flaws into the first places of `flaws`, as
/// many as there are places. `section` is the state before the block, and then after it.
#[unsafe(no_mangle)]
pub extern "C" fn pcapfile_take_block_as_is<'a>(
    alloc: Global,
    section: &mut PcapfileSection,
    left: &mut PcapfileBytes<'a>,
    block: &mut PcapfileBlockAsIs<'a>,
    flaws: &mut [PcapfileBlockFlaw],
    error: &mut PcapfileError,
) -> i32
    ensures taken { (q : State) → ShowsStanding section.old q →
        TakesStanding q (block_reader section.old left.old (block.old, flaws.old) error.old)
        (block_reader section.new left.new (block.new, flaws.new) error.new) result }
    ensures refused { order_shown section.old.magic_number ≡ None →
        RefusesStanding (block_reader section.old left.old (block.old, flaws.old) error.old)
        (block_reader section.new left.new (block.new, flaws.new) error.new) result }
{
    match next_standing(section, alloc, left.bytes) {
        Ok((rest, (found, next))) => {
            show_flaws(found.flaws.as_slice(), flaws);
            *block = found.shown;
            *section = next;
            left.bytes = rest;
            0
        }
        Err(e) => tell(&e, error),
    }
}

// What lenient reading finds in a block: the struct for C, and the flaws.
#[derive(Drop)]
struct FoundAsIs<'a> {
    shown: PcapfileBlockAsIs<'a>,
    flaws: Vec<Flaw>,
}

// Reads the block at the front of a slice leniently. Returns the rest, the block, and the section in force after it.
fn next_standing<'a>(
    section: &PcapfileSection,
    alloc: Global,
    slice: &'a [u8],
) -> ResultParsing<(&'a [u8], (FoundAsIs<'a>, PcapfileSection))>
    ensures said { (q : State) → ShowsStanding section.now q → NextStands q slice.now result }
    ensures refused { order_shown section.now.magic_number ≡ None → IsErrAnd result (Names SectionMagic) }
{
    let Some(order) = section.order() else {
        return Err(PcapError::from(Rule::SectionMagic));
    };
    let (rest, block) = Block::from_slice(order, slice)?;
    let found = standing(section, alloc, block)?;
    Ok((rest, found))
}

// Returns what lenient reading finds in a block, and the section in force after it.
fn standing<'a>(
    section: &PcapfileSection,
    alloc: Global,
    block: Block<'a>,
) -> ResultParsing<(FoundAsIs<'a>, PcapfileSection)>
    requires { IsBorrowed block.body }
    ensures { (q : State) → ShowsStanding section.now q → LeadsStanding q (framed_of block.entry) result }
{
    match block.type_ {
        BlockType::SectionHeader => {
            let lent = PcapfileBlock::new(block);
            let (opened, flaws) = section_standing(alloc, lent.body)?;
            Ok((FoundAsIs::nothing(lent, flaws), opened))
        }
        _ => standing_on(section, alloc, block),
    }
}

// Does the same for a block that is no section header.
fn standing_on<'a>(
    section: &PcapfileSection,
    alloc: Global,
    block: Block<'a>,
) -> ResultParsing<(FoundAsIs<'a>, PcapfileSection)>
    requires other { block.type_ ≢ types.SectionHeader }
    requires borrowed { IsBorrowed block.body }
    ensures { (q : State) → ShowsStanding section.now q → LeadsStanding q (framed_of block.entry) result }
{
    if section.magic_number == 0 {
        return Err(PcapError::from(Rule::SectionMissing));
    }
    let (type_, order) = (block.type_, block.endianness());
    let lent = PcapfileBlock::new(block);
    match type_ {
        BlockType::InterfaceDescription => {
            let found = FoundAsIs::interface(alloc, order, lent)?;
            let interfaces = section.interfaces.saturating_add(1);
            Ok((
                found,
                PcapfileSection {
                    interfaces,
                    ..*section
                },
            ))
        }
        BlockType::EnhancedPacket => Ok((FoundAsIs::packet(alloc, order, lent)?, *section)),
        _ => Ok((FoundAsIs::nothing(lent, Vec::new(alloc)), *section)),
    }
}

impl<'a> FoundAsIs<'a> {
    // Returns what is found in a block whose body isn't read, with these flaws.
    fn nothing(lent: PcapfileBlock<'a>, flaws: Vec<Flaw>) -> FoundAsIs<'a>
        ensures { FindsNothing lent.entry (said_in flaws) result }
    {
        let mut shown = PcapfileBlockAsIs::bare(lent);
        shown.flaws = flaws.len();
        FoundAsIs { shown, flaws }
    }

    // Returns the block with the interface that lenient reading finds in it.
    fn interface(
        alloc: Global,
        order: Endianness,
        lent: PcapfileBlock<'a>,
    ) -> Result<FoundAsIs<'a>, AllocError>
        ensures { IfOk result (FindsInterface (number_in order) lent.entry) }
    {
        let InterfaceAsIs { interface, flaws } = interface_standing(alloc, order, lent.body)?;
        let mut shown = PcapfileBlockAsIs::bare(lent);
        shown.flaws = flaws.len();
        if let Some(interface) = &interface {
            shown.has_interface = 1;
            shown.interface = interface_shown(interface);
        }
        Ok(FoundAsIs { shown, flaws })
    }

    // Returns the block with the packet that lenient reading finds in it.
    fn packet(
        alloc: Global,
        order: Endianness,
        lent: PcapfileBlock<'a>,
    ) -> Result<FoundAsIs<'a>, AllocError>
        ensures { IfOk result (FindsPacket (number_in order) lent.entry) }
    {
        let EnhancedAsIs { packet, flaws } = packet_standing(alloc, order, lent.body)?;
        let mut shown = PcapfileBlockAsIs::bare(lent);
        shown.flaws = flaws.len();
        if let Some(packet) = packet {
            shown.has_packet = 1;
            shown.packet = enhanced_shown(packet);
        }
        Ok(FoundAsIs { shown, flaws })
    }
}

impl<'a> PcapfileBlockAsIs<'a> {
    // Returns the struct for a block whose body isn't read.
    fn bare(lent: PcapfileBlock<'a>) -> PcapfileBlockAsIs<'a>
        ensures of { IsOf lent.entry result }
        ensures bare { ShowsReading (record { interface = None; packet = None; flaws = [] }) result }
    {
        PcapfileBlockAsIs {
            type_: lent.type_,
            has_interface: 0,
            has_packet: 0,
            flaws: 0,
            body: lent.body,
            interface: NO_INTERFACE,
            packet: PcapfileNgPacket {
                type_: 0,
                interface_id: 0,
                orig_len: 0,
                timestamp: 0,
                bytes: &[],
            },
        }
    }
}

const NO_INTERFACE: PcapfileInterface = PcapfileInterface {
    link: 0,
    snaplen: 0,
    ts_base: 0,
    ts_exponent: 0,
    ts_offset: 0,
};

// Returns the section that begins with a section header of this body, and its flaws.
fn section_standing(alloc: Global, body: &[u8]) -> ResultParsing<(PcapfileSection, Vec<Flaw>)>
    ensures { TellsSection body.now result }
{
    let (_rest, read) = SectionAsIs::from_slice(alloc, body)?;
    let SectionAsIs { section, flaws } = read;
    Ok((PcapfileSection::opened(&section), flaws))
}

// Returns what lenient reading finds in the body of an interface, in this byte order.
fn interface_standing<'a>(
    alloc: Global,
    order: Endianness,
    body: &'a [u8],
) -> Result<InterfaceAsIs<'a>, AllocError>
    ensures { IfOk result (λ x. (rest : List ℕ) × InterfaceText (number_in order) (interface_in x) (interface_flaws x) body.now rest) }
{
    match order {
        Endianness::Big => Ok(InterfaceAsIs::from_slice::<BigEndian>(alloc, body)?.1),
        Endianness::Little => Ok(InterfaceAsIs::from_slice::<LittleEndian>(alloc, body)?.1),
    }
}

// Returns what lenient reading finds in the body of an enhanced packet, in this byte order.
fn packet_standing<'a>(
    alloc: Global,
    order: Endianness,
    body: &'a [u8],
) -> Result<EnhancedAsIs<'a>, AllocError>
    ensures read { IfOk result (λ x. (rest : List ℕ) × EnhancedText (number_in order) (enhanced_in x) (packet_flaws x) body.now rest) }
    ensures borrowed { IfOk result (λ x. IfSome x.packet (λ packet. IsBorrowed packet.data_)) }
{
    match order {
        Endianness::Big => Ok(EnhancedAsIs::from_slice::<BigEndian>(alloc, body)?.1),
        Endianness::Little => Ok(EnhancedAsIs::from_slice::<LittleEndian>(alloc, body)?.1),
    }
}

// Writes flaws into the first places, as many as there are places.
fn show_flaws(flaws: &[Flaw], places: &mut [PcapfileBlockFlaw])
    ensures { ShowsFlaws (map said_of flaws.now) places.old places.new }
{
    let count = flaws.len().min(places.len());
    for i in 0..count {
        places[i] = PcapfileBlockFlaw::new(flaws[i]);
    }
}

impl PcapfileBlockFlaw {
    // Returns the struct for a flaw.
    fn new(flaw: Flaw) -> PcapfileBlockFlaw
        ensures { result ≡ shown_flaw (said_of flaw) }
    {
        let (status, rule) = match flaw.broken {
            Broken::Rule(rule) => (3, rule.number()),
            Broken::TooShort => (2, 0),
            Broken::NotUtf8 => (4, 0),
        };
        PcapfileBlockFlaw {
            status,
            rule,
            code: match flaw.code {
                Some(code) => u32::from(code),
                None => 0,
            },
        }
    }
}
