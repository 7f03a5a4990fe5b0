//! Reads the packets of a capture of either format in memory, one at each call.

ghost use Rattle.std.specs.Prelude.{◌≡◌, ◌<◌, ◌↔◌, length, pos, None, IsTrue};
ghost use Rattle.pcap_ng.specs.State.{State};
ghost use Rattle.pcapfile_values.specs.Blocks.{order_shown};
ghost use Rattle.pcapfile_c.specs.AnyCaptures.{IsNg, HasEnded, TakesAnyPacket, TakesAnyNgPacket, TakesHeaded, TakesSectioned, RefusesAnyPacket};
ghost use Rattle.pcapfile_c.specs.AnyCaptures.{LeavesAnyPacket, TakesCaptured, TakesWithPlaces, RefusesWithPlaces, LacksPlaces};
ghost use Rattle.pcapfile_c.specs.PushPackets.{ShowsInForce, HaveBases, LeavesOthers};
ghost use Rattle.pcapfile_c.specs.Readers.{any_reader, header_reader, packet_reader};

use crate::push::take_front;
use crate::push_packets::take_packet;
use pcap_core::rules::Rule;
use pcapfile_values::any_packets::PcapfileAnyPacket;
use pcapfile_values::blocks::PcapfileSection;
use pcapfile_values::bodies::PcapfileInterface;
use pcapfile_values::errors::{PcapfileError, tell_broken};
use pcapfile_values::shown::{PcapfileBytes, PcapfileHeader, PcapfilePacket};
use std::alloc::Global;

/// What the reader keeps between two packets of a capture of either format. In C: `pcapfile_capture`.
#[repr(C)]
#[derive(Clone, Copy)]
pub struct PcapfileCapture {
    /// The header of a classic capture. Its magic number is 0 until a call reads it, and in a PcapNg capture.
    pub header: PcapfileHeader,
    /// The current section of a PcapNg capture. Its magic number is 0 until a call reads the first one, and in a classic capture.
    pub section: PcapfileSection,
}

// The first bytes of a PcapNg capture.
const SECTION: [u8; 4] = [0x0A, 0x0D, 0x0D, 0x0A];

/// Reads the packet at the front of `left` and what precedes it, a capture's header or blocks, and moves `left` after it. A section
/// header goes into `capture`, and an interface into the first place of `interfaces` after those of its section. The header or section in
/// `capture` decides the format, or before there is one, the first bytes. Status 8: nothing is left after the header or a block. Status
/// 10: `capture` has more interfaces than there are places. Other statuses are those of `pcapfile_push_next` and `pcapfile_push_ng_next`.
#[unsafe(no_mangle)]
pub extern "C" fn pcapfile_take_any<'a>(
    alloc: Global,
    capture: &mut PcapfileCapture,
    left: &mut PcapfileBytes<'a>,
    interfaces: &mut [PcapfileInterface],
    packet: &mut PcapfileAnyPacket<'a>,
    error: &mut PcapfileError,
) -> i32
    ensures packets { (IsNg capture.old left.old.bytes.now → ⊥) →
        TakesAnyPacket (any_reader capture.old interfaces.old left.old.bytes.now packet.old error.old)
        (any_reader capture.new interfaces.new left.new.bytes.now packet.new error.new) result }
    ensures blocks { (q : State) → IsNg capture.old left.old.bytes.now → ShowsInForce capture.old.section interfaces.old q →
        TakesAnyNgPacket q (any_reader capture.old interfaces.old left.old.bytes.now packet.old error.old)
        (any_reader capture.new interfaces.new left.new.bytes.now packet.new error.new) result }
    ensures bases { HaveBases capture.old.section interfaces.old → HaveBases capture.new.section interfaces.new }
    ensures refused { IsNg capture.old left.old.bytes.now → order_shown capture.old.section.magic_number ≡ None →
        RefusesAnyPacket (any_reader capture.old interfaces.old left.old.bytes.now packet.old error.old)
        (any_reader capture.new interfaces.new left.new.bytes.now packet.new error.new) result }
    ensures lacking { IsNg capture.old left.old.bytes.now → length interfaces.old < capture.old.section.interfaces →
        LeavesAnyPacket (any_reader capture.old interfaces.old left.old.bytes.now packet.old error.old)
        (any_reader capture.new interfaces.new left.new.bytes.now packet.new error.new) result }
    ensures others { (q : State) → IsNg capture.old left.old.bytes.now → ShowsInForce capture.old.section interfaces.old q →
        LeavesOthers q capture.new.section interfaces.old interfaces.new left.old.bytes.now left.new.bytes.now }
{
    let before = *error;
    let status = take_either(alloc, capture, left, interfaces, packet, error);
    if capture.is_end(status, left.bytes) {
        *error = before;
        return 8;
    }
    status
}

// Does the same, but reports the end of a capture as missing bytes.
fn take_either<'a>(
    alloc: Global,
    capture: &mut PcapfileCapture,
    left: &mut PcapfileBytes<'a>,
    interfaces: &mut [PcapfileInterface],
    packet: &mut PcapfileAnyPacket<'a>,
    error: &mut PcapfileError,
) -> i32
    ensures packets { (IsNg capture.old left.old.bytes.now → ⊥) →
        TakesHeaded (any_reader capture.old interfaces.old left.old.bytes.now packet.old error.old)
        (any_reader capture.new interfaces.new left.new.bytes.now packet.new error.new) result }
    ensures blocks { (q : State) → IsNg capture.old left.old.bytes.now → ShowsInForce capture.old.section interfaces.old q →
        TakesSectioned q (any_reader capture.old interfaces.old left.old.bytes.now packet.old error.old)
        (any_reader capture.new interfaces.new left.new.bytes.now packet.new error.new) result }
    ensures bases { HaveBases capture.old.section interfaces.old → HaveBases capture.new.section interfaces.new }
    ensures refused { IsNg capture.old left.old.bytes.now → order_shown capture.old.section.magic_number ≡ None →
        RefusesAnyPacket (any_reader capture.old interfaces.old left.old.bytes.now packet.old error.old)
        (any_reader capture.new interfaces.new left.new.bytes.now packet.new error.new) result }
    ensures lacking { IsNg capture.old left.old.bytes.now → length interfaces.old < capture.old.section.interfaces →
        LeavesAnyPacket (any_reader capture.old interfaces.old left.old.bytes.now packet.old error.old)
        (any_reader capture.new interfaces.new left.new.bytes.now packet.new error.new) result }
    ensures others { (q : State) → IsNg capture.old left.old.bytes.now → ShowsInForce capture.old.section interfaces.old q →
        LeavesOthers q capture.new.section interfaces.old interfaces.new left.old.bytes.now left.new.bytes.now }
{
    if capture.is_ng(left.bytes) {
        take_any_block(alloc, &mut capture.section, left, interfaces, packet, error)
    } else {
        take_any_packet(&mut capture.header, left, packet, error)
    }
}

// Reads the packet of a classic capture at the front of `left`, and the header before it if `header` has none yet.
fn take_any_packet<'a>(
    header: &mut PcapfileHeader,
    left: &mut PcapfileBytes<'a>,
    packet: &mut PcapfileAnyPacket<'a>,
    error: &mut PcapfileError,
) -> i32
    ensures { TakesCaptured (header_reader header.old left.old.bytes.now packet.old error.old)
        (header_reader header.new left.new.bytes.now packet.new error.new) result }
{
    let mut found = PcapfilePacket {
        ts_sec: 0,
        ts_nsec: 0,
        orig_len: 0,
        bytes: &[],
    };
    let status = take_front(header, left, &mut found, error);
    if status != 0 {
        return status;
    }
    *packet = PcapfileAnyPacket::of_capture(&found, header);
    0
}

// Reads the packet of a PcapNg capture at the front of `left`, and the blocks before it.
fn take_any_block<'a>(
    alloc: Global,
    section: &mut PcapfileSection,
    left: &mut PcapfileBytes<'a>,
    interfaces: &mut [PcapfileInterface],
    packet: &mut PcapfileAnyPacket<'a>,
    error: &mut PcapfileError,
) -> i32
    ensures taken { (q : State) → ShowsInForce section.old interfaces.old q →
        TakesWithPlaces q (packet_reader section.old interfaces.old left.old.bytes.now packet.old error.old)
        (packet_reader section.new interfaces.new left.new.bytes.now packet.new error.new) result }
    ensures bases { HaveBases section.old interfaces.old → HaveBases section.new interfaces.new }
    ensures refused { order_shown section.old.magic_number ≡ None →
        RefusesWithPlaces (packet_reader section.old interfaces.old left.old.bytes.now packet.old error.old)
        (packet_reader section.new interfaces.new left.new.bytes.now packet.new error.new) result }
    ensures lacking { length interfaces.old < section.old.interfaces →
        LacksPlaces (packet_reader section.old interfaces.old left.old.bytes.now packet.old error.old)
        (packet_reader section.new interfaces.new left.new.bytes.now packet.new error.new) result }
    ensures others { (q : State) → ShowsInForce section.old interfaces.old q → LeavesOthers q section.new interfaces.old interfaces.new left.old.bytes.now left.new.bytes.now }
{
    if interfaces.len() < section.interfaces as usize {
        return 10;
    }
    if section.order().is_none() {
        return tell_broken(Rule::SectionMagic, error);
    }
    take_packet(alloc, section, left, interfaces, packet, error)
}

impl PcapfileCapture {
    // Returns whether the capture is PcapNg. The section or header decides, or the first bytes if there is neither.
    fn is_ng(&self, bytes: &[u8]) -> bool
        ensures { IsTrue result ↔ IsNg self.now bytes.now }
    {
        if self.section.magic_number != 0 {
            return true;
        }
        self.header.kind().is_none() && bytes.starts_with(&SECTION)
    }

    // Returns whether a call that stopped with this status reached the end of a capture.
    fn is_end(&self, status: i32, left: &[u8]) -> bool
        ensures { IsTrue result ↔ (status ≡ pos 1) × HasEnded self.now left.now }
    {
        status == 1
            && left.is_empty()
            && (self.section.magic_number != 0 || self.header.kind().is_some())
    }
}
