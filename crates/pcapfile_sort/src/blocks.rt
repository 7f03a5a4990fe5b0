//! The blocks of a PcapNg capture, and the first pass over them.

ghost use Rattle.std.specs.Prelude.{◌≡◌, ◌<◌, ◌+◌, ◌*◌, ◌^◌, ◌+ℤ◌, pos, [], Option, List, ℕ, Some, false, true, map};
ghost use Rattle.pcap_blocks.specs.InterfaceDescription.{interface_of};
ghost use Rattle.pcap_blocks.specs.ParsedBlock.{body_of};
ghost use Rattle.pcap_items.specs.Lent.{TakesText};
ghost use Rattle.pcap_ng.specs.Frames.{framed_of};
ghost use Rattle.pcap_ng.specs.Opening.{OpeningSays};
ghost use Rattle.pcap_ng.specs.Reader.{has_failed, is_done, lent_item, state_of, stream_of, text_of};
ghost use Rattle.pcapfile_run.specs.BlockPackets.{in_block, packet_in};
ghost use Rattle.pcap_walk.specs.declared.walking.Ended.TheVariants.{AtEnd};
ghost use Rattle.pcapfile_sort.specs.Blocks.{HasSections, IsBlockIn, IsNumberIn, block_captures, sections_with};
ghost use Rattle.pcapfile_sort.specs.Reading.{PassesOnce};
ghost use Rattle.pcapfile_sort.specs.ReadingBlocks.{HasTimeNumber, IsRankIn, KeepsBlock, KeepsNumbered, Numbers, ReadsBlocks};

use crate::collecting::{Entries, Unkept};
use crate::records::Records;
use pcap_core::{Endianness, ResultParsing};
use pcap_file::PcapNgReader;
use pcap_file::pcapng::{Block, BlockHeader, InterfaceDescriptionBlock, ParsedBlock};
use pcap_walk::Ended;
use pcapfile_run::{BlockPacket, interface_at, packet_in_body};
use std::alloc::Global;
use std::io::Read;

/// The nanoseconds in a second.
const SECOND: u128 = 1_000_000_000;

/// How many numbers there are for the blocks of a section.
const NUMBERS: u128 = 39_614_081_257_132_168_796_771_975_168;

/// How many sections are too many.
const SECTIONS: u64 = 8_589_934_592;

// The number of a block within its section, and of its section within the capture.
#[derive(Clone, Copy)]
struct Numbered {
    // How many sections there are with it.
    sections: u64,
    // Its number within its section.
    number: u128,
}

impl Numbered {
    // Returns the rank of the block. None if there are too many sections.
    fn rank(self) -> Option<u128>
        requires { self.number < 2 ^ 95 }
        ensures { IsRankIn self result }
    {
        if self.sections < SECTIONS {
            Some(u128::from(self.sections) * NUMBERS + self.number)
        } else {
            None
        }
    }
}

// Returns how many seconds an offset is after the earliest one.
fn biased(offset: i64) -> u64
    ensures { pos result ≡ offset +ℤ pos (2 ^ 63) }
{
    offset.abs_diff(i64::MIN)
}

// Returns the number of a time with these seconds, the seconds of a biased offset, and these nanoseconds.
fn number_at(seconds: u64, offset: u64, nanoseconds: u32) -> u128
    ensures { result ≡ 2 + ((seconds + offset) * 10 ^ 9 + nanoseconds) }
{
    let moved = u128::from(seconds) + u128::from(offset);
    2 + moved * SECOND + u128::from(nanoseconds)
}

// Returns the number of the time that is this many units of an interface's clock.
fn time_number(interface: &InterfaceDescriptionBlock<'static>, units: u64) -> u128
    ensures number { HasTimeNumber (interface_of interface.now) units result }
    ensures few { result < 2 ^ 95 }
{
    let clock = interface.clock();
    let (seconds, nanoseconds) = clock.unit.split(units);
    number_at(seconds, biased(clock.offset), nanoseconds)
}

// Returns the number of a packet, whose section has these interfaces.
fn packet_number(interfaces: &[InterfaceDescriptionBlock<'static>], packet: BlockPacket) -> u128
    ensures number { IsNumberIn (map interface_of interfaces.now) (Some (in_block packet.entry)) result }
    ensures few { result < 2 ^ 95 }
{
    let Some(units) = packet.units else {
        return 1;
    };
    match interface_at(interfaces, packet.interface) {
        None => 1,
        Some(interface) => time_number(interface, units),
    }
}

// Returns the number of a block with this body, whose section has these interfaces.
fn body_number(interfaces: &[InterfaceDescriptionBlock<'static>], parsed: &ParsedBlock<'_>) -> u128
    ensures number { IsNumberIn (map interface_of interfaces.now) (packet_in (map interface_of interfaces.now) (body_of parsed.now)) result }
    ensures few { result < 2 ^ 95 }
{
    match packet_in_body(interfaces, parsed) {
        None => 0,
        Some(packet) => packet_number(interfaces, packet),
    }
}

// Returns how many sections there are with this body, if there are this many before it.
fn sections_behind(parsed: &ParsedBlock<'_>, before: u64) -> u64
    requires { before < 2 ^ 33 }
    ensures { result ≡ sections_with (body_of parsed.now) before }
{
    match parsed {
        ParsedBlock::SectionHeader(_) => before + 1,
        _ => before,
    }
}

// Numbers a block, before which there are this many sections, and whose section has these interfaces.
fn number_block(
    alloc: Global,
    interfaces: &[InterfaceDescriptionBlock<'static>],
    block: &Block<'_>,
    before: u64,
) -> ResultParsing<Numbered>
    requires { before < 2 ^ 33 }
    ensures { Numbers (map interface_of interfaces.now) (framed_of block.now) before result }
{
    match block.parsed(alloc) {
        Ok(parsed) => Ok(Numbered {
            sections: sections_behind(&parsed, before),
            number: body_number(interfaces, &parsed),
        }),
        Err(error) => Err(error),
    }
}

/// The entries of the blocks that were read, and the number of their sections.
#[derive(Debug, Drop)]
pub(crate) struct BlockEntries {
    pub(crate) entries: Entries,
    pub(crate) sections: u64,
}

impl BlockEntries {
    // Keeps the entry of a block, which has these bytes, or returns why the first pass ends there.
    fn keep(&mut self, numbered: Numbered, bytes: usize) -> Option<Ended<Unkept>>
        requires { numbered.number < 2 ^ 95 }
        ensures { KeepsNumbered numbered bytes self.old self.new result }
    {
        self.sections = numbered.sections;
        let Some(rank) = numbered.rank() else {
            return Some(Ended::Stopped(Unkept::TooLong));
        };
        match self.entries.keep(rank, bytes) {
            Ok(()) => None,
            Err(stop) => Some(Ended::Stopped(stop)),
        }
    }

    // Keeps the entry of the block that a reader lends, or returns why the first pass ends there.
    fn keep_lent<R>(
        &mut self,
        alloc: Global,
        reader: &PcapNgReader<R>,
        header: BlockHeader,
    ) -> Option<Ended<Unkept>>
        requires { self.old.sections < 2 ^ 33 }
        ensures { KeepsBlock (lent_item reader.now header) (text_of reader.now) self.old self.new result }
    {
        let block = reader.block(header);
        match number_block(alloc, reader.interfaces(), &block, self.sections) {
            Ok(numbered) => self.keep(numbered, reader.text().len()),
            Err(error) => Some(Ended::Refused(error)),
        }
    }
}

// Reads the blocks behind those whose entries are kept, and keeps an entry for each, up to the end of the capture or the first error.
fn read_blocks<R: Read + Drop>(
    alloc: Global,
    reader: &mut PcapNgReader<R>,
    kept: &mut BlockEntries,
) -> Ended<Unkept>
    requires ready { is_done reader.old ≡ false }
    requires few { kept.old.sections < 2 ^ 33 }
    ensures { ReadsBlocks (state_of reader.old) (R.remaining (stream_of reader.old)) (has_failed reader.new) kept.old kept.new result }
{
    for turn in 0..u64::MAX {
        let header = match reader.next_header() {
            None => return Ended::AtEnd,
            Some(Err(error)) => return Ended::Refused(error),
            Some(Ok(header)) => header,
        };
        if let Some(ended) = kept.keep_lent(alloc, reader, header) {
            return ended;
        }
    }
    Ended::AtMost
}

/// Keeps the entry of the block that a new reader lends, then reads the other blocks, and keeps an entry for each, up to the end of the
/// capture or the first error.
pub(crate) fn read_all_blocks<R: Read + Drop>(
    alloc: Global,
    reader: &mut PcapNgReader<R>,
    kept: &mut BlockEntries,
) -> Ended<Unkept>
    requires ready { is_done reader.old ≡ false }
    requires none { kept.old.entries.list.items ≡ [] }
    requires start { kept.old.entries.place ≡ 0 }
    requires sections { kept.old.sections ≡ 0 }
    ensures passes { (capture : Option (List ℕ)) → TakesText OpeningSays capture (R.remaining (stream_of reader.old)) (text_of reader.old) (state_of reader.old)
        → PassesOnce block_captures tt capture (has_failed reader.new) kept.new.entries result }
    ensures sections { (capture : Option (List ℕ)) → TakesText OpeningSays capture (R.remaining (stream_of reader.old)) (text_of reader.old) (state_of reader.old)
        → result ≡ AtEnd → HasSections capture kept.new.sections }
{
    let first = Numbered {
        sections: 1,
        number: 0,
    };
    match kept.keep(first, reader.text().len()) {
        None => read_blocks(alloc, reader, kept),
        Some(ended) => ended,
    }
}

// Returns whether the bytes are exactly one block in this byte order.
fn is_block_in(order: Endianness, text: &[u8]) -> bool
    ensures yes { result ≡ true → IsBlockIn order text.now }
    ensures no { result ≡ false → IsBlockIn order text.now → ⊥ }
{
    match Block::from_slice(order, text) {
        Ok((rest, _block)) => rest.is_empty(),
        Err(_) => false,
    }
}

/// The blocks of a PcapNg capture.
#[derive(Clone, Copy)]
pub(crate) struct BlockRecords;

impl Records for BlockRecords {
    ghost use Rattle.pcapfile_sort.specs.Blocks.{block_captures};

    ghost format = { block_captures };

    ghost opening = { λ blocks. tt };

    fn lead(&self) -> &[u8] {
        &[]
    }

    fn is_record(&self, _rank: u128, text: &[u8]) -> bool {
        is_block_in(Endianness::Little, text) || is_block_in(Endianness::Big, text)
    }
}
