//! Blocks without a packet, which a merge keeps or leaves out.

ghost use Rattle.std.specs.Prelude.{◌≡◌, ◌≤◌, length, map, IfOk, MatchResult};
ghost use Rattle.pcap_core.specs.Errors.{IsMemory};
ghost use Rattle.pcap_blocks.specs.InterfaceDescription.{interface_of};
ghost use Rattle.pcap_ng.specs.Frames.{framed_of};
ghost use Rattle.pcapfile_merge.specs.LeavingOut.{nothing, with_section};
ghost use Rattle.pcapfile_merge.specs.Keeping as keeping;
ghost use Rattle.pcapfile_merge.specs.Keeping.{IsUnkept, carried_with, kept_with, little_of, with_number};

use crate::left_out::LeftOut;
use crate::little::{can_turn, put_text, put_turned};
use crate::parts::{behind, front};
use byteorder::{ByteOrder, LittleEndian};
use pcap_file::pcapng::{Block, BlockType, InterfaceDescriptionBlock};
use pcap_file::{Endianness, PcapError, ResultParsing};
use pcapfile_run::interface_at;

/// The most bytes of a body that is kept.
const LONGEST: usize = 4_294_967_248;

/// The type of custom blocks that are not to be copied into another capture.
const NOT_COPIED: u32 = 0x4000_0BAD;

/// The size of the number of an interface, in bytes.
const NUMBER: usize = 4;

/// What a reader counted in the blocks that it took.
#[derive(Clone, Copy)]
pub(crate) struct Kept {
    /// How many blocks without a packet, and options of section headers, it left out.
    pub(crate) left_out: LeftOut,
    /// How many interfaces came before the current section.
    pub(crate) before: usize,
    /// How many interfaces there were.
    pub(crate) all: usize,
}

impl Kept {
    // Returns the counts after a first section header that has this many options.
    pub(crate) fn new(options: usize) -> Kept
        ensures { result ≡ record { left_out = with_section options nothing; before = 0; all = 0 } }
    {
        let mut left_out = LeftOut::nothing();
        left_out.count_options(options);
        Kept {
            left_out,
            before: 0,
            all: 0,
        }
    }

    // Counts a block of a section that has these interfaces with it, and this many options in its header.
    pub(crate) fn pass(
        &mut self,
        options: usize,
        interfaces: &[InterfaceDescriptionBlock<'static>],
        block: &Block,
    )
        ensures { self.new ≡ kept_with options (map interface_of interfaces.now) (framed_of block.now) self.old }
    {
        if !is_carried(interfaces, block) {
            self.left_out.count(block.type_, options);
        }
        match block.type_ {
            BlockType::SectionHeader => self.before = self.all,
            BlockType::InterfaceDescription => self.all = self.all.saturating_add(1),
            _ => (),
        }
    }
}

// Replaces `text` by the text of a block that is kept, in little-endian order. The function uses `body` as a buffer.
#[tactic(auto, using(crate::proofs::Keeping::raw_length, crate::proofs::Keeping::turned_text))]
pub(crate) fn put_kept(block: &Block, body: &mut Vec<u8>, text: &mut Vec<u8>) -> ResultParsing<()>
    ensures put { MatchResult result (λ done. text.new.items ≡ (carried_with (little_of (framed_of block.now)) (framed_of block.now)).text)
        (IsUnkept (framed_of block.now)) }
    ensures few { IfOk result (λ done. length text.new.items ≤ 4294967260) }
{
    let old = block.body.as_slice();
    if old.len() > LONGEST {
        return Err(PcapError::InvalidField("Block: a block that is too long"));
    }
    match block.endianness() {
        Endianness::Big => put_turned(block.type_, old, body, text),
        Endianness::Little => put_text(block.type_, old, text),
    }
}

// Replaces `text` by the text of statistics that are kept, with another interface number. The function uses `body` as a buffer.
#[tactic(auto, using(crate::proofs::Keeping::numbered_length, crate::proofs::Keeping::same_length))]
pub(crate) fn put_statistics(
    block: &Block,
    number: u32,
    body: &mut Vec<u8>,
    text: &mut Vec<u8>,
) -> ResultParsing<()>
    requires { 4 ≤ length (framed_of block.now).body }
    ensures put { MatchResult result (λ done. text.new.items ≡ (carried_with (with_number number (framed_of block.now).body) (framed_of block.now)).text)
        (IsUnkept (framed_of block.now)) }
    ensures few { IfOk result (λ done. length text.new.items ≤ 4294967260) }
{
    let old = block.body.as_slice();
    if old.len() > LONGEST {
        return Err(PcapError::InvalidField("Block: a block that is too long"));
    }
    put_number(number, old, body)?;
    put_text(block.type_, body.as_slice(), text)?;
    Ok(())
}

// Replaces `body` by another body of statistics, with another interface number.
fn put_number(number: u32, old: &[u8], body: &mut Vec<u8>) -> ResultParsing<()>
    ensures { MatchResult result (λ done. body.new.items ≡ with_number number old.now) IsMemory }
{
    let mut bytes = [0; NUMBER];
    LittleEndian::write_u32(&mut bytes, number);
    body.clear();
    body.extend_from_slice(&bytes)?;
    body.extend_from_slice(behind(old, NUMBER))?;
    Ok(())
}

// Returns whether a merge keeps this block without a packet, whose section has these interfaces so far.
pub(crate) fn is_carried(interfaces: &[InterfaceDescriptionBlock<'static>], block: &Block) -> bool
    ensures { result ≡ keeping.is_carried (map interface_of interfaces.now) (framed_of block.now) }
{
    match block.endianness() {
        Endianness::Big => can_turn(block.type_, block.body.as_slice()),
        Endianness::Little => is_copied(interfaces, block.type_, block.body.as_slice()),
    }
}

// Returns whether blocks of this type are copied, or statistics with this body.
fn is_copied(
    interfaces: &[InterfaceDescriptionBlock<'static>],
    type_: BlockType,
    body: &[u8],
) -> bool
    ensures { result ≡ keeping.is_copied (map interface_of interfaces.now) type_ body.now }
{
    match type_ {
        BlockType::NameResolution | BlockType::SystemdJournalExport => true,
        BlockType::InterfaceStatistics => is_among(interfaces, first_number(body)),
        BlockType::Unknown(number) => number != NOT_COPIED,
        _ => false,
    }
}

// Returns whether one of these interfaces has this number.
fn is_among(interfaces: &[InterfaceDescriptionBlock<'static>], number: Option<u32>) -> bool
    ensures { result ≡ keeping.is_among (map interface_of interfaces.now) number }
{
    match number {
        None => false,
        Some(number) => interface_at(interfaces, number).is_some(),
    }
}

// Returns the number in the first 4 bytes of a little-endian body, if it has as many.
pub(crate) fn first_number(body: &[u8]) -> Option<u32>
    ensures { result ≡ keeping.first_number body.now }
{
    let first = front(body, NUMBER);
    if first.len() != NUMBER {
        return None;
    }
    Some(LittleEndian::read_u32(first))
}

// Returns whether blocks of this type hold interface statistics.
pub(crate) fn is_statistics(type_: BlockType) -> bool
    ensures { result ≡ keeping.is_statistics type_ }
{
    matches!(type_, BlockType::InterfaceStatistics)
}

// Returns whether blocks of this type describe an interface.
pub(crate) fn is_interface(type_: BlockType) -> bool
    ensures { result ≡ keeping.is_interface type_ }
{
    matches!(type_, BlockType::InterfaceDescription)
}
