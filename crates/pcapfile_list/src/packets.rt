//! Listing the packets of a PcapNg capture, one line each.

ghost use Rattle.std.specs.Prelude.{◌≡◌, ◌≤◌, ℕ, drop, map, Option, IfSome, MatchResult};
ghost use Rattle.pcap_blocks.specs.InterfaceDescription.{interface_of};
ghost use Rattle.pcap_ng.specs.Blocks.{Item};
ghost use Rattle.pcap_ng.specs.Bodies.{GrowsInBody};
ghost use Rattle.pcap_ng.specs.Frames.{framed_of};
ghost use Rattle.pcap_file.specs.Placed.{is_packet};
ghost use Rattle.pcap_ng.specs.State.{State};
ghost use Rattle.pcap_program.specs.declared.exit.Exit.TheVariants as exits;
ghost use Rattle.pcap_program.specs.Exits.{exit_of};
ghost use Rattle.pcap_program.specs.Lines.{WritesLine};
ghost use Rattle.capcopy_run.specs.Listing.{ListsUntil};
ghost use Rattle.pcapfile_lines.specs.declared.form.Form.{Form};
ghost use Rattle.pcapfile_list.specs.FileLines.{IsLineIf, IsNumberedLine, IsStoredIn, IsStoredLine, is_packet_item, numbered_blocks, stored_lines};
ghost use Rattle.pcapfile_list.specs.Numbered.{Numbered, number_behind, numbered_behind};
ghost use Rattle.pcapfile_list.specs.StoredBlocks.{stored_blocks};

use crate::formed::write_formed;
use crate::lines::{make_body_line, make_refused_line};
use capcopy_run::{BlockLine, Blocks, list_items};
use pcap_file::PcapError;
use pcap_file::pcapng::{Block, InterfaceDescriptionBlock, PcapNgParser};
use pcap_program::{Exit, ROOM, put_line};
use pcapfile_lines::Form;
use pcapfile_run::holds_packet;
use std::alloc::Global;
use std::io::{BufRead, Write};

// Writes the line of the packet in a block, with this number, into the end of the buffer, and returns where the line begins.
fn make_line(
    alloc: Global,
    room: &mut [u8; ROOM],
    number: u64,
    interfaces: &[InterfaceDescriptionBlock<'static>],
    block: &Block,
) -> Result<usize, Exit>
    ensures { MatchResult result
        (λ start. (start ≤ 126) × IsStoredLine (map interface_of interfaces.now) number (framed_of block.now) (drop start room.new))
        (λ exit. (exit ≡ exits.Memory) × GrowsInBody (framed_of block.now)) }
{
    match block.parsed(alloc) {
        Ok(parsed) => Ok(make_body_line(room, number, interfaces, &parsed)),
        Err(PcapError::OutOfMemory(_)) => Err(Exit::Memory),
        Err(_) => Ok(make_refused_line(room, number)),
    }
}

// Writes the line of the packet in a block, with this number.
fn write_plain<W: Write>(
    alloc: Global,
    output: &mut W,
    number: u64,
    interfaces: &[InterfaceDescriptionBlock<'static>],
    block: &Block,
) -> Result<(), Exit>
    ensures { WritesLine (IsStoredLine (map interface_of interfaces.now) number (framed_of block.now)) (W.contents output.old) (W.contents output.new) result }
{
    let mut room = [0; ROOM];
    let start = make_line(alloc, &mut room, number, interfaces, block)?;
    put_line(output, &room[start..])
}

// Writes the line of the packet in a block, in this form if there is one.
fn write_packet<W: Write>(
    alloc: Global,
    output: &mut W,
    form: Option<Form>,
    number: u64,
    interfaces: &[InterfaceDescriptionBlock<'static>],
    block: &Block,
) -> Result<(), Exit>
    ensures { WritesLine (IsStoredIn form (map interface_of interfaces.now) number (framed_of block.now))
        (W.contents output.old) (W.contents output.new) result }
{
    match form {
        None => write_plain(alloc, output, number, interfaces, block),
        Some(form) => write_formed(alloc, output, form, number, interfaces, block),
    }
}

// Writes the line of the next block, if it holds a packet, and counts the packet.
fn write_block<W: Write>(
    alloc: Global,
    output: &mut W,
    form: Option<Form>,
    packets: &mut u64,
    interfaces: &[InterfaceDescriptionBlock<'static>],
    block: &Block,
) -> Result<(), Exit>
    ensures counts { packets.new ≡ number_behind (is_packet block.now.type_) packets.old }
    ensures writes { WritesLine (IsLineIf form (is_packet block.now.type_) (map interface_of interfaces.now) packets.new (framed_of block.now))
        (W.contents output.old) (W.contents output.new) result }
{
    if !holds_packet(block.type_) {
        return Ok(());
    }
    *packets = packets.saturating_add(1);
    write_packet(alloc, output, form, *packets, interfaces, block)
}

// A writer of lines of packets, in this form if there is one, and the number of packets so far.
#[derive(Drop)]
struct StoredLines {
    form: Option<Form>,
    packets: u64,
}

impl BlockLine for StoredLines {
    ghost Setting = { Option Form };

    ghost Kept = { ℕ };

    ghost Reached = { State × ℕ };

    ghost Value = { Numbered Item };

    ghost line = { IsNumberedLine };

    ghost format = { numbered_blocks };

    ghost reached = { λ q n. (q, n) };

    ghost value = { numbered_behind is_packet_item };

    ghost behind = { λ n item. number_behind (is_packet_item item) n };

    ghost setting = { λ lines. lines.form };

    ghost kept = { λ lines. lines.packets };

    ghost are_blocks = { stored_blocks };

    fn write_line<W: Write>(
        &mut self,
        alloc: Global,
        output: &mut W,
        _index: u64,
        parser: &PcapNgParser,
        block: &Block,
    ) -> Result<(), Exit> {
        let interfaces = parser.interfaces();
        write_block(
            alloc,
            output,
            self.form,
            &mut self.packets,
            interfaces,
            block,
        )
    }
}

/// Writes a line for each packet of a PcapNg capture, in this form if there is one. It reads at most `most` blocks after the first.
pub(crate) fn list_stored<R: BufRead, W: Write>(
    alloc: Global,
    form: Option<Form>,
    input: &mut R,
    output: &mut W,
    most: u64,
) -> Result<(), Exit>
    ensures { IfSome (R.remaining input.old) (λ s. ListsUntil (stored_lines form) most s (R.remaining input.new)
        (W.contents output.old) (W.contents output.new) (exit_of result)) }
{
    let parser = PcapNgParser::from_reader(alloc, input)?;
    let lines = StoredLines { form, packets: 0 };
    list_items(alloc, &mut Blocks { lines, parser }, input, output, most)
}
