//! Reads packets of captures of either format that come in pieces, many in one call, from a buffer of the caller (the room).

ghost use Rattle.std.specs.Prelude.{◌≡◌, ◌≤◌, length, false, IsTrue, None};
ghost use Rattle.pcap_classic.specs.Magic.{is_magic};
ghost use Rattle.pcap_ng.specs.State.{State};
ghost use Rattle.pcapfile_values.specs.Blocks.{order_shown};
ghost use Rattle.pcapfile_c.specs.PushBatches.{FillsPlaces, TakesFrontPackets, TakesNextPackets};
ghost use Rattle.pcapfile_c.specs.PushNgBatches.{TakesFrontNgPackets, TakesNextNgPackets, RefusesNextNgPackets, LeavesNgPackets};
ghost use Rattle.pcapfile_c.specs.Push.{LiesWithin, held_in};
ghost use Rattle.pcapfile_c.specs.PushPackets.{ShowsInForce, HaveBases, LeavesOthers, MakesNoSense};
ghost use Rattle.pcapfile_c.specs.Readers.{header_reader, packet_reader, reader};

use crate::pcap::{pcapfile_take_header, take_each};
use crate::push::PcapfilePush;
use crate::push_packets::take_packet;
use pcap_core::PcapError;
use pcap_core::rules::Rule;
use pcapfile_values::any_packets::PcapfileAnyPacket;
use pcapfile_values::blocks::PcapfileSection;
use pcapfile_values::bodies::PcapfileInterface;
use pcapfile_values::errors::{PcapfileError, tell, tell_broken};
use pcapfile_values::shown::{PcapfileBytes, PcapfileHeader, PcapfilePacket};
use std::alloc::Global;

/// Reads packets at the front of the held bytes into the first places, after the capture's header, which it reads if it wasn't read yet.
/// Stops when every place is filled or the next packet is refused, and sets `taken` to the number of packets. Their bytes are borrowed
/// from the room. Status 0: every place is filled. Other statuses are those of `pcapfile_push_next`.
#[unsafe(no_mangle)]
pub extern "C" fn pcapfile_push_packets<'a>(
    push: &mut PcapfilePush,
    room: &'a [u8],
    packets: &mut [PcapfilePacket<'a>],
    taken: &mut usize,
    error: &mut PcapfileError,
) -> i32
    ensures { TakesNextPackets room.now (reader push.old packets.old error.old) (reader push.new packets.new error.new) taken.new result }
{
    *taken = 0;
    let Some(held) = room.get(push.begin..push.end) else {
        return 10;
    };
    let mut left = PcapfileBytes { bytes: held };
    let status = take_front_packets(&mut push.header, &mut left, packets, taken, error);
    push.begin = push.end - left.bytes.len();
    status
}

// Reads packets at the front of `left`, and the header before them if `header` has none yet.
fn take_front_packets<'a>(
    header: &mut PcapfileHeader,
    left: &mut PcapfileBytes<'a>,
    packets: &mut [PcapfilePacket<'a>],
    taken: &mut usize,
    error: &mut PcapfileError,
) -> i32
    requires { taken.old ≡ 0 }
    ensures { TakesFrontPackets (header_reader header.old left.old.bytes.now packets.old error.old)
        (header_reader header.new left.new.bytes.now packets.new error.new) taken.new result }
{
    match header.kind() {
        Some(_) => fill_places(header, left, packets, taken, error),
        None => take_first_packets(header, left, packets, taken, error),
    }
}

// Reads the header at the front of `left`, and packets after it.
#[cold]
#[inline(never)]
fn take_first_packets<'a>(
    header: &mut PcapfileHeader,
    left: &mut PcapfileBytes<'a>,
    packets: &mut [PcapfilePacket<'a>],
    taken: &mut usize,
    error: &mut PcapfileError,
) -> i32
    requires none_taken { taken.old ≡ 0 }
    requires none_in_force { is_magic header.old.magic_number ≡ false }
    ensures { TakesFrontPackets (header_reader header.old left.old.bytes.now packets.old error.old)
        (header_reader header.new left.new.bytes.now packets.new error.new) taken.new result }
{
    let status = pcapfile_take_header(left, header, error);
    if status != 0 {
        return status;
    }
    fill_places(header, left, packets, taken, error)
}

// Reads packets at the front of `left`, after this header, until every place is filled or the next packet is refused.
fn fill_places<'a>(
    header: &PcapfileHeader,
    left: &mut PcapfileBytes<'a>,
    packets: &mut [PcapfilePacket<'a>],
    taken: &mut usize,
    error: &mut PcapfileError,
) -> i32
    requires { IsTrue (is_magic header.now.magic_number) }
    ensures { FillsPlaces header.now.magic_number (reader left.old.bytes.now packets.old error.old)
        (reader left.new.bytes.now packets.new error.new) taken.new result }
{
    let status = take_each(header, left, packets, taken, error);
    if status == 0 && *taken < packets.len() {
        return tell(&PcapError::IncompleteBuffer(16), error);
    }
    status
}

/// Reads packets of a PcapNg capture at the front of the held bytes, with the blocks before each, as `pcapfile_push_ng_next` does. Stops
/// when every place is filled or no packet follows, and sets `taken` to the number of packets. Their bytes are borrowed from the room.
/// Status 0: every place is filled, and nothing after the last packet was read. Other statuses are those of `pcapfile_push_ng_next`.
#[unsafe(no_mangle)]
pub extern "C" fn pcapfile_push_ng_packets<'a>(
    alloc: Global,
    push: &mut PcapfilePush,
    section: &mut PcapfileSection,
    room: &'a [u8],
    interfaces: &mut [PcapfileInterface],
    packets: &mut [PcapfileAnyPacket<'a>],
    taken: &mut usize,
    error: &mut PcapfileError,
) -> i32
    ensures taken { (q : State) → ShowsInForce section.old interfaces.old q →
        TakesNextNgPackets q room.now (packet_reader section.old interfaces.old push.old packets.old error.old)
        (packet_reader section.new interfaces.new push.new packets.new error.new) taken.new result }
    ensures bases { HaveBases section.old interfaces.old → HaveBases section.new interfaces.new }
    ensures refused { order_shown section.old.magic_number ≡ None →
        RefusesNextNgPackets room.now (packet_reader section.old interfaces.old push.old packets.old error.old)
        (packet_reader section.new interfaces.new push.new packets.new error.new) taken.new result }
    ensures nonsense { MakesNoSense push.old section.old interfaces.old room.now →
        LeavesNgPackets (packet_reader section.old interfaces.old push.old packets.old error.old)
        (packet_reader section.new interfaces.new push.new packets.new error.new) taken.new result }
    ensures others { (q : State) → ShowsInForce section.old interfaces.old q → LiesWithin push.old room.now →
        LeavesOthers q section.new interfaces.old interfaces.new (held_in push.old room.now) (held_in push.new room.now) }
{
    *taken = 0;
    let Some(held) = room.get(push.begin..push.end) else {
        return 10;
    };
    if interfaces.len() < section.interfaces as usize {
        return 10;
    }
    if section.order().is_none() {
        return tell_broken(Rule::SectionMagic, error);
    }
    let mut left = PcapfileBytes { bytes: held };
    let status = take_ng_packets(alloc, section, &mut left, interfaces, packets, taken, error);
    push.begin = push.end - left.bytes.len();
    status
}

// Reads packets at the front of `left`, and the blocks before each. Its parameters are those of `pcapfile_push_ng_packets`, with `left` for
// the room.
fn take_ng_packets<'a>(
    alloc: Global,
    section: &mut PcapfileSection,
    left: &mut PcapfileBytes<'a>,
    interfaces: &mut [PcapfileInterface],
    packets: &mut [PcapfileAnyPacket<'a>],
    taken: &mut usize,
    error: &mut PcapfileError,
) -> i32
    requires { taken.old ≡ 0 }
    ensures taken { (q : State) → ShowsInForce section.old interfaces.old q →
        TakesFrontNgPackets q (packet_reader section.old interfaces.old left.old.bytes.now packets.old error.old)
        (packet_reader section.new interfaces.new left.new.bytes.now packets.new error.new) taken.new result }
    ensures bases { HaveBases section.old interfaces.old → HaveBases section.new interfaces.new }
    ensures fewer { length left.new.bytes.now ≤ length left.old.bytes.now }
    ensures others { (q : State) → ShowsInForce section.old interfaces.old q → LeavesOthers q section.new interfaces.old interfaces.new left.old.bytes.now left.new.bytes.now }
{
    while *taken < packets.len() {
        let packet = &mut packets[*taken];
        let status = take_packet(alloc, section, left, interfaces, packet, error);
        if status != 0 {
            return status;
        }
        *taken += 1;
    }
    0
}
