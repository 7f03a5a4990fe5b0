//! The packets of blocks in a given form.

ghost use Rattle.std.specs.Prelude.{map};
ghost use Rattle.pcap_blocks.specs.InterfaceDescription.{interface_of};
ghost use Rattle.pcap_blocks.specs.ParsedBlock.{body_of};
ghost use Rattle.pcap_ng.specs.Frames.{framed_of};
ghost use Rattle.pcap_program.specs.Lines.{WritesLine};
ghost use Rattle.pcapfile_list.specs.FormedLines.{IsTextOfBlock, IsTextOfBody};

use crate::formed_items::write_item;
use crate::seen::seen_in_block;
use pcap_file::PcapError;
use pcap_file::pcapng::{Block, InterfaceDescriptionBlock, ParsedBlock};
use pcap_program::Exit;
use pcapfile_lines::Form;
use pcapfile_run::packet_in_body;
use std::alloc::Global;
use std::io::Write;

// Writes the packet in a body, with this number, or nothing if the body is no packet.
fn write_body<W: Write>(
    alloc: Global,
    output: &mut W,
    form: Form,
    number: u64,
    interfaces: &[InterfaceDescriptionBlock<'static>],
    parsed: &ParsedBlock,
) -> Result<(), Exit>
    ensures { WritesLine (IsTextOfBody form (map interface_of interfaces.now) number (body_of parsed.now))
        (W.contents output.old) (W.contents output.new) result }
{
    let Some(packet) = packet_in_body(interfaces, parsed) else {
        return Ok(());
    };
    let seen = seen_in_block(interfaces, packet);
    write_item(alloc, output, form, number, Some(seen), packet.bytes)
}

/// Writes the packet in a block, with this number.
pub(crate) fn write_formed<W: Write>(
    alloc: Global,
    output: &mut W,
    form: Form,
    number: u64,
    interfaces: &[InterfaceDescriptionBlock<'static>],
    block: &Block,
) -> Result<(), Exit>
    ensures { WritesLine (IsTextOfBlock form (map interface_of interfaces.now) number (framed_of block.now))
        (W.contents output.old) (W.contents output.new) result }
{
    match block.parsed(alloc) {
        Ok(parsed) => write_body(alloc, output, form, number, interfaces, &parsed),
        Err(PcapError::OutOfMemory(_)) => Err(Exit::Memory),
        Err(_) => write_item(alloc, output, form, number, None, &[]),
    }
}
