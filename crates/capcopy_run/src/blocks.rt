//! The word `blocks`: writes one line for the first section of a PcapNg capture, and one for each of its blocks.

ghost use Rattle.std.specs.Prelude.{◌≡◌, ◌≤◌, ◌+◌, ◌++◌, [], drop, IfSome, IfErr, OnOk, IsSome, MatchResult, string_bytes};
ghost use Rattle.pcap_blocks.specs.SectionHeader.{section_of, magic_order};
ghost use Rattle.pcap_ng.specs.Blocks.{Item, block_format};
ghost use Rattle.pcap_ng.specs.Bodies.{GrowsInBody};
ghost use Rattle.pcap_ng.specs.Frames.{framed_of};
ghost use Rattle.pcap_ng.specs.State.{State};
ghost use Rattle.pcap_program.specs.declared.exit.Exit.TheVariants as exits;
ghost use Rattle.capcopy_run.specs.BlockLines.{section_line, kind_name, IsBodyWord, IsBlockLine, IsItemLine, block_lines};
ghost use Rattle.pcap_program.specs.Exits.{exit_of};
ghost use Rattle.capcopy_run.specs.Exits.{IsOfKnownWord};
ghost use Rattle.pcap_program.specs.Lines.{WritesLine};
ghost use Rattle.capcopy_run.specs.Listing.{ListsUntil};
ghost use Rattle.capcopy_run.specs.OfBlocks.{blocks_alone};
ghost use Rattle.capcopy_run.specs.Words.{order_word};

use crate::items::list_items;
use crate::listed_blocks::{BlockLine, Blocks};
use pcap_file::pcapng::{Block, BlockType, PcapNgParser, SectionHeaderBlock};
use pcap_file::{Endianness, PcapError};
use pcap_program::{Exit, ROOM, put_byte, put_line, put_number, put_word};
use std::alloc::{AllocError, Global};
use std::io::{BufRead, Write};

// Puts the name of a block's type before the text that begins at `end`, and returns the new beginning.
fn put_kind(room: &mut [u8; ROOM], end: usize, type_: BlockType) -> usize
    requires { (28 ≤ end) × (end ≤ 126) }
    ensures start { (result ≤ end) × (end ≤ result + 28) }
    ensures text { drop result room.new ≡ kind_name type_ ++ drop end room.old }
{
    match type_ {
        BlockType::SectionHeader => put_word(room, end, "section"),
        BlockType::InterfaceDescription => put_word(room, end, "interface"),
        BlockType::Packet => put_word(room, end, "packet"),
        BlockType::SimplePacket => put_word(room, end, "simple"),
        BlockType::NameResolution => put_word(room, end, "names"),
        BlockType::InterfaceStatistics => put_word(room, end, "statistics"),
        BlockType::EnhancedPacket => put_word(room, end, "enhanced"),
        BlockType::SystemdJournalExport => put_word(room, end, "journal"),
        BlockType::Unknown(number) => {
            let start = put_number(room, end, u64::from(number));
            put_word(room, start, "unknown:")
        }
    }
}

fn order_name(order: Endianness) -> &'static str
    ensures { result.now ≡ order_word order }
{
    match order {
        Endianness::Big => "big",
        Endianness::Little => "little",
    }
}

// Appends the line of a section.
fn push_section(line: &mut String, section: &SectionHeaderBlock) -> Result<(), AllocError>
    requires empty { string_bytes line.old ≡ [] }
    requires valid { IsSome (magic_order section.now.magic) }
    ensures { OnOk result (string_bytes line.new ≡ section_line (section_of section.now)) }
{
    let order = order_name(section.endianness());
    let major = section.major_version;
    let minor = section.minor_version;
    writeln!(line, "section {order} {major}.{minor}")
}

fn write_section<W: Write>(
    alloc: Global,
    output: &mut W,
    section: &SectionHeaderBlock,
) -> Result<(), Exit>
    requires { IsSome (magic_order section.now.magic) }
    ensures { WritesLine (λ bytes. bytes ≡ section_line (section_of section.now)) (W.contents output.old) (W.contents output.new) result }
{
    let mut line = String::new(alloc);
    push_section(&mut line, section)?;
    put_line(output, line.as_bytes())
}

// Returns the word that says whether the body of a block can be parsed.
fn body_word(alloc: Global, block: &Block) -> Result<&'static str, Exit>
    ensures { MatchResult result (λ word. IsBodyWord (framed_of block.now) word.now) (λ exit. (exit ≡ exits.Memory) × GrowsInBody (framed_of block.now)) }
{
    match block.parsed(alloc) {
        Ok(_) => Ok("ok"),
        Err(PcapError::OutOfMemory(_)) => Err(Exit::Memory),
        Err(_) => Ok("refused"),
    }
}

// Writes the line of the block at this index into the end of the buffer, and returns where the line begins.
fn make_block_line(room: &mut [u8; ROOM], index: u64, block: &Block, word: &str) -> usize
    requires { IsBodyWord (framed_of block.now) word.now }
    ensures within { result ≤ 126 }
    ensures line { IsBlockLine index (framed_of block.now) (drop result room.new) }
{
    let start = put_byte(room, ROOM, b'\n');
    let start = put_word(room, start, word);
    let start = put_byte(room, start, b' ');
    let start = put_number(room, start, u64::from(block.initial_len));
    let start = put_byte(room, start, b' ');
    let start = put_kind(room, start, block.type_);
    let start = put_byte(room, start, b' ');
    put_number(room, start, index)
}

// A writer of block lines, with its own buffer.
#[derive(Drop)]
struct KindLines {
    room: [u8; ROOM],
}

impl BlockLine for KindLines {
    ghost Setting = { Unit {0} };

    ghost Kept = { Unit {0} };

    ghost Reached = { State };

    ghost Value = { Item };

    ghost line = { λ setting. IsItemLine };

    ghost format = { block_format };

    ghost reached = { λ q kept. q };

    ghost value = { λ kept item. item };

    ghost behind = { λ kept item. kept };

    ghost setting = { λ lines. tt };

    ghost kept = { λ lines. tt };

    ghost are_blocks = { blocks_alone };

    fn write_line<W: Write>(
        &mut self,
        alloc: Global,
        output: &mut W,
        index: u64,
        _parser: &PcapNgParser,
        block: &Block,
    ) -> Result<(), Exit> {
        let word = body_word(alloc, block)?;
        let start = make_block_line(&mut self.room, index, block, word);
        put_line(output, &self.room[start..])
    }
}

/// Writes one line for the first section of the capture in the input, and then one for each block, up to `most` lines.
///
/// Returns an error for a malformed or truncated rest after it has written the lines of the blocks before it.
pub(crate) fn blocks<R: BufRead, W: Write>(
    alloc: Global,
    input: &mut R,
    output: &mut W,
    most: u64,
) -> Result<(), Exit>
    ensures known { IfErr result IsOfKnownWord }
    ensures lists { IfSome (R.remaining input.old) (λ s. ListsUntil block_lines most s (R.remaining input.new)
        (W.contents output.old) (W.contents output.new) (exit_of result)) }
{
    let parser = PcapNgParser::from_reader(alloc, input)?;
    write_section(alloc, output, parser.section())?;
    let lines = KindLines { room: [0; ROOM] };
    list_items(alloc, &mut Blocks { lines, parser }, input, output, most)
}
