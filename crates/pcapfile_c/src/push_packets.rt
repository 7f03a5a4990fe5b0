//! Reads packets of PcapNg captures that come in pieces, from a buffer of the caller (the room).

ghost use Rattle.std.specs.Prelude.{◌≡◌, ◌<◌, ◌≤◌, ℕ, List, length, None, Some, slice_get};
ghost use Rattle.pcap_blocks.specs.declared.block_type.BlockType.TheVariants as types;
ghost use Rattle.pcap_blocks.specs.SectionHeader.{magic_order};
ghost use Rattle.pcap_ng.specs.State.{State, order_at};
ghost use Rattle.pcapfile_values.specs.Blocks.{order_shown};
ghost use Rattle.pcapfile_c.specs.Batches.{LeadingText};
ghost use Rattle.pcapfile_c.specs.Push.{LiesWithin, held_in};
ghost use Rattle.pcapfile_c.specs.PushPackets.{ShowsInForce, HaveBases, LeavesFewer, PutsTells, StepTells, TakesFrontPacket};
ghost use Rattle.pcapfile_c.specs.PushPackets.{TakesNextPacket, RefusesNextPacket, MakesNoSense, LeavesOthers, LeavesPackets};
ghost use Rattle.pcapfile_c.specs.Readers.{packet_reader};

use crate::batches::{Front, front_of};
use crate::push::PcapfilePush;
use pcap_core::Endianness;
use pcap_core::rules::Rule;
use pcap_ng::pcapng::BlockType;
use pcapfile_values::any_packets::PcapfileAnyPacket;
use pcapfile_values::blocks::{PcapfileSection, section_in};
use pcapfile_values::bodies::{PcapfileInterface, interface_of};
use pcapfile_values::errors::{PcapfileError, tell, tell_broken};
use pcapfile_values::shown::PcapfileBytes;
use std::alloc::Global;

/// Reads the packet at the front of the held bytes, and the blocks before it. A section header goes into `section`, and an interface into
/// the first place of `interfaces` after those of its section. Other blocks are skipped. The packet's bytes are borrowed from the room.
/// Status 0: `packet` is set. Status 11: an interface follows for which `interfaces` has no place, and the blocks before it have been
/// read. Status 10: the held bytes are outside of the room, or `section` has more interfaces than there are places, and nothing changed.
/// Other statuses are those of `pcapfile_take_block` and `pcapfile_read_packet`. `packet` is then unchanged, and the blocks before the
/// refused one have been read.
#[unsafe(no_mangle)]
pub extern "C" fn pcapfile_push_ng_next<'a>(
    alloc: Global,
    push: &mut PcapfilePush,
    section: &mut PcapfileSection,
    room: &'a [u8],
    interfaces: &mut [PcapfileInterface],
    packet: &mut PcapfileAnyPacket<'a>,
    error: &mut PcapfileError,
) -> i32
    ensures taken { (q : State) → ShowsInForce section.old interfaces.old q →
        TakesNextPacket q room.now (packet_reader section.old interfaces.old push.old packet.old error.old)
        (packet_reader section.new interfaces.new push.new packet.new error.new) result }
    ensures bases { HaveBases section.old interfaces.old → HaveBases section.new interfaces.new }
    ensures refused { order_shown section.old.magic_number ≡ None →
        RefusesNextPacket room.now (packet_reader section.old interfaces.old push.old packet.old error.old)
        (packet_reader section.new interfaces.new push.new packet.new error.new) result }
    ensures nonsense { MakesNoSense push.old section.old interfaces.old room.now →
        LeavesPackets (packet_reader section.old interfaces.old push.old packet.old error.old)
        (packet_reader section.new interfaces.new push.new packet.new error.new) result }
    ensures others { (q : State) → ShowsInForce section.old interfaces.old q → LiesWithin push.old room.now →
        LeavesOthers q section.new interfaces.old interfaces.new (held_in push.old room.now) (held_in push.new room.now) }
{
    let Some(held) = room.get(push.begin..push.end) else {
        return 10;
    };
    if interfaces.len() < section.interfaces as usize {
        return 10;
    }
    if section.order().is_none() {
        return tell_broken(Rule::SectionMagic, error);
    }
    let mut left = PcapfileBytes { bytes: held };
    let status = take_packet(alloc, section, &mut left, interfaces, packet, error);
    push.begin = push.end - left.bytes.len();
    status
}

// Reads the packet at the front of `left`, and the blocks before it.
#[inline(always)]
pub(crate) fn take_packet<'a>(
    alloc: Global,
    section: &mut PcapfileSection,
    left: &mut PcapfileBytes<'a>,
    interfaces: &mut [PcapfileInterface],
    packet: &mut PcapfileAnyPacket<'a>,
    error: &mut PcapfileError,
) -> i32
    ensures taken { (q : State) → ShowsInForce section.old interfaces.old q →
        TakesFrontPacket q (packet_reader section.old interfaces.old left.old.bytes.now packet.old error.old)
        (packet_reader section.new interfaces.new left.new.bytes.now packet.new error.new) result }
    ensures bases { HaveBases section.old interfaces.old → HaveBases section.new interfaces.new }
    ensures fewer { length left.new.bytes.now ≤ length left.old.bytes.now }
    ensures others { (q : State) → ShowsInForce section.old interfaces.old q → LeavesOthers q section.new interfaces.old interfaces.new left.old.bytes.now left.new.bytes.now }
{
    loop {
        match take_block(alloc, section, left, interfaces, packet, error) {
            Some(status) => return status,
            None => {}
        }
    }
}

// Reads the block at the front of `left`. Returns the status for the caller, or None if the search for a packet goes on.
#[inline(always)]
fn take_block<'a>(
    alloc: Global,
    section: &mut PcapfileSection,
    left: &mut PcapfileBytes<'a>,
    interfaces: &mut [PcapfileInterface],
    packet: &mut PcapfileAnyPacket<'a>,
    error: &mut PcapfileError,
) -> Option<i32>
    ensures taken { (q : State) → ShowsInForce section.old interfaces.old q →
        StepTells q (packet_reader section.old interfaces.old left.old.bytes.now packet.old error.old)
        (packet_reader section.new interfaces.new left.new.bytes.now packet.new error.new) result }
    ensures bases { HaveBases section.old interfaces.old → HaveBases section.new interfaces.new }
    ensures fewer { LeavesFewer left.old.bytes.now left.new.bytes.now result }
    ensures others { (i : ℕ) → section.new.interfaces ≤ i → slice_get interfaces.new i ≡ slice_get interfaces.old i }
{
    let Some(order) = section.endianness() else {
        return take_first(alloc, section, left, error);
    };
    match front_of(alloc, order, left.bytes) {
        Ok((rest, Front::Packet(found))) => {
            *packet = PcapfileAnyPacket::new(found, section, interfaces);
            left.bytes = rest;
            Some(0)
        }
        Ok((rest, Front::Other)) => {
            left.bytes = rest;
            None
        }
        Ok((rest, Front::Section(body))) => take_section(alloc, section, left, rest, body, error),
        Ok((rest, Front::Interface(body))) => {
            take_interface(alloc, order, section, left, rest, body, interfaces, error)
        }
        Err(e) => Some(tell(&e, error)),
    }
}

// Reads the section header with which a capture begins.
#[cold]
#[inline(never)]
fn take_first(
    alloc: Global,
    section: &mut PcapfileSection,
    left: &mut PcapfileBytes<'_>,
    error: &mut PcapfileError,
) -> Option<i32>
    requires { magic_order section.old.magic_number ≡ None }
    ensures taken { (q : State) (places : List PcapfileInterface) → ShowsInForce section.old places q →
        PutsTells q (packet_reader section.old places left.old.bytes.now tt error.old)
        (packet_reader section.new places left.new.bytes.now tt error.new) result }
    ensures bases { (places : List PcapfileInterface) → HaveBases section.old places → HaveBases section.new places }
    ensures fewer { LeavesFewer left.old.bytes.now left.new.bytes.now result }
{
    match section.next_block(alloc, left.bytes) {
        Ok((rest, (_block, next))) => {
            *section = next;
            left.bytes = rest;
            None
        }
        Err(e) => Some(tell(&e, error)),
    }
}

// Begins the section whose header is at the front of `left` and has this body, before `rest`.
#[cold]
#[inline(never)]
fn take_section<'a>(
    alloc: Global,
    section: &mut PcapfileSection,
    left: &mut PcapfileBytes<'a>,
    rest: &'a [u8],
    body: &'a [u8],
    error: &mut PcapfileError,
) -> Option<i32>
    requires { length rest.now < length left.old.bytes.now }
    ensures taken { (q : State) (places : List PcapfileInterface) → ShowsInForce section.old places q →
        LeadingText (order_at q) types.SectionHeader body.now left.old.bytes.now rest.now →
        PutsTells q (packet_reader section.old places left.old.bytes.now tt error.old)
        (packet_reader section.new places left.new.bytes.now tt error.new) result }
    ensures bases { (places : List PcapfileInterface) → HaveBases section.old places → HaveBases section.new places }
    ensures fewer { LeavesFewer left.old.bytes.now left.new.bytes.now result }
{
    match section_in(alloc, body) {
        Ok(next) => {
            *section = next;
            left.bytes = rest;
            None
        }
        Err(e) => Some(tell(&e, error)),
    }
}

// Adds the interface whose block is at the front of `left` and has this body, before `rest`. Its parameters are those of `take_block`, and
// what that function found of the block.
#[cold]
#[inline(never)]
fn take_interface<'a>(
    alloc: Global,
    order: Endianness,
    section: &mut PcapfileSection,
    left: &mut PcapfileBytes<'a>,
    rest: &'a [u8],
    body: &'a [u8],
    interfaces: &mut [PcapfileInterface],
    error: &mut PcapfileError,
) -> Option<i32>
    requires named { magic_order section.old.magic_number ≡ Some order }
    requires shorter { length rest.now < length left.old.bytes.now }
    ensures taken { (q : State) → ShowsInForce section.old interfaces.old q →
        LeadingText (order_at q) types.InterfaceDescription body.now left.old.bytes.now rest.now →
        PutsTells q (packet_reader section.old interfaces.old left.old.bytes.now tt error.old)
        (packet_reader section.new interfaces.new left.new.bytes.now tt error.new) result }
    ensures bases { HaveBases section.old interfaces.old → HaveBases section.new interfaces.new }
    ensures fewer { LeavesFewer left.old.bytes.now left.new.bytes.now result }
    ensures others { (i : ℕ) → section.new.interfaces ≤ i → slice_get interfaces.new i ≡ slice_get interfaces.old i }
{
    let found = match interface_of(alloc, order, BlockType::InterfaceDescription, body) {
        Ok(Some(found)) => found,
        Ok(None) => unreachable!(),
        Err(e) => return Some(tell(&e, error)),
    };
    let count = section.interfaces;
    if count == u32::MAX || interfaces.len() <= count as usize {
        return Some(11);
    }
    interfaces[count as usize] = found;
    section.interfaces = count + 1;
    left.bytes = rest;
    None
}
