//! Lines of packets in blocks, built from the end to the beginning.

ghost use Rattle.std.specs.Prelude.{◌≡◌, ◌≤◌, ◌++◌, drop, map, codes};
ghost use Rattle.std.specs.Fmt.{decimal};
ghost use Rattle.pcap_blocks.specs.InterfaceDescription.{interface_of};
ghost use Rattle.pcap_blocks.specs.ParsedBlock.{body_of};
ghost use Rattle.pcapfile_list.specs.FileLines.{IsBodyLine};

use pcap_file::pcapng::{InterfaceDescriptionBlock, ParsedBlock};
use pcap_program::{ROOM, put_byte, put_number, put_word};
use pcapfile_run::{interface_at, packet_in_body, put_packet};

/// Writes the line of the packet in a body, with this number, into the end of the buffer, and returns where the line begins. The line
/// is empty if the body is no packet.
pub(crate) fn make_body_line(
    room: &mut [u8; ROOM],
    number: u64,
    interfaces: &[InterfaceDescriptionBlock<'static>],
    parsed: &ParsedBlock,
) -> usize
    ensures within { result ≤ 126 }
    ensures line { IsBodyLine (map interface_of interfaces.now) number (body_of parsed.now) (drop result room.new) }
{
    let Some(packet) = packet_in_body(interfaces, parsed) else {
        return ROOM;
    };
    let end = put_byte(room, ROOM, b'\n');
    let interface = interface_at(interfaces, packet.interface);
    put_packet(room, end, number, interface, packet)
}

/// Writes the line of a packet with this number and a malformed body into the end of the buffer, and returns where the line begins.
pub(crate) fn make_refused_line(room: &mut [u8; ROOM], number: u64) -> usize
    ensures within { result ≤ 126 }
    ensures line { drop result room.new ≡ decimal number ++ codes " refused\n" }
{
    let start = put_word(room, ROOM, " refused\n");
    put_number(room, start, number)
}
