//! The properties of packets that lines show, for either format.

ghost use Rattle.std.specs.Prelude.{◌≡◌, map, option_map};
ghost use Rattle.pcap_blocks.specs.InterfaceDescription.{interface_of};
ghost use Rattle.pcapfile_run.specs.BlockPackets.{IsClockTime, IsTimeIn, in_block};
ghost use Rattle.pcapfile_list.specs.FormedLines.{IsSeen, seen_header};

use pcap_file::pcap::PacketHeader;
use pcap_file::pcapng::{InterfaceDescriptionBlock, Timestamp};
use pcapfile_lines::Seen;
use pcapfile_run::{BlockPacket, interface_at};

/// The nanoseconds in a second.
const BILLION: u32 = 1_000_000_000;

/// Returns the properties of the packet with this header. A fraction of a second or more is carried to the seconds.
pub(crate) fn seen_of_header(header: PacketHeader) -> Seen
    ensures { result ≡ seen_header header }
{
    let seconds = u64::from(header.ts_sec) + u64::from(header.ts_nsec / BILLION);
    Seen {
        time: Some(Timestamp {
            seconds: i128::from(seconds),
            nanoseconds: header.ts_nsec % BILLION,
        }),
        captured: u64::from(header.incl_len),
        original: header.orig_len,
        interface: None,
    }
}

// Returns the time that is `units` units of an interface's clock, if the interface is described.
fn time_by(interface: Option<&InterfaceDescriptionBlock<'static>>, units: u64) -> Option<Timestamp>
    ensures { IsClockTime (option_map (λ i. interface_of i.now) interface.entry) units result }
{
    match interface {
        None => None,
        Some(interface) => Some(interface.timestamp(units)),
    }
}

// Returns the time of a packet in a block, given the interfaces of its section.
fn time_of(
    interfaces: &[InterfaceDescriptionBlock<'static>],
    packet: BlockPacket,
) -> Option<Timestamp>
    ensures { IsTimeIn (map interface_of interfaces.now) packet.entry.interface packet.entry.units result }
{
    match packet.units {
        None => None,
        Some(units) => time_by(interface_at(interfaces, packet.interface), units),
    }
}

/// Returns the properties of a packet in a block, given the interfaces of its section.
pub(crate) fn seen_in_block(
    interfaces: &[InterfaceDescriptionBlock<'static>],
    packet: BlockPacket,
) -> Seen
    ensures { IsSeen (map interface_of interfaces.now) (in_block packet.entry) result }
{
    Seen {
        time: time_of(interfaces, packet),
        captured: packet.bytes.len() as u64,
        original: packet.original_len,
        interface: Some(packet.interface),
    }
}
