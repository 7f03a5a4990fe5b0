//! Lines of packets in blocks, built from the end to the beginning.

ghost use Rattle.std.specs.Prelude.{◌≡◌, ◌≢◌, ◌≤◌, ◌+◌, ◌<◌, ◌^◌, ◌++◌, ℕ, List, pos, length, drop, codes, option_map, MatchOption};
ghost use Rattle.std.specs.Fmt.{decimal};
ghost use Rattle.pcap_blocks.specs.InterfaceDescription.{interface_of};
ghost use Rattle.pcapfile_run.specs.BlockPackets.{in_block};
ghost use Rattle.pcapfile_run.specs.PacketTexts.{IsPacketText, IsTimeText, IsUnitsText, ShowsTime, lengths_text};

use crate::block_packet::BlockPacket;
use pcap_file::pcapng::{InterfaceDescriptionBlock, Timestamp};
use pcap_program::{ROOM, put_byte, put_nine_digits, put_number};

// Returns the seconds of a time, if they fit in 64 bits and aren't negative.
fn seconds_of(time: Timestamp) -> Option<u64>
    ensures { MatchOption result ((s : ℕ) → s < 2 ^ 64 → time.seconds ≢ pos s) (λ s. (s < 2 ^ 64) × (time.seconds ≡ pos s)) }
{
    u64::try_from(time.seconds).ok()
}

// Puts a time before the text that begins at `end`, and returns the new beginning.
fn put_time(room: &mut [u8; ROOM], end: usize, time: Timestamp) -> usize
    requires { (41 ≤ end) × (end ≤ 126) }
    ensures start { (result ≤ end) × (end ≤ result + 41) }
    ensures text { (text : List ℕ) × ShowsTime time text × (drop result room.new ≡ text ++ drop end room.old) }
{
    let Some(seconds) = seconds_of(time) else {
        return put_byte(room, end, b'-');
    };
    let start = put_nine_digits(room, end, time.nanoseconds);
    let start = put_byte(room, start, b'.');
    put_number(room, start, seconds)
}

// Puts the time that is `units` units of an interface's clock before the text that begins at `end`.
fn put_time_at(
    room: &mut [u8; ROOM],
    end: usize,
    interface: Option<&InterfaceDescriptionBlock<'static>>,
    units: u64,
) -> usize
    requires { (41 ≤ end) × (end ≤ 126) }
    ensures start { (result ≤ end) × (end ≤ result + 41) }
    ensures text { (text : List ℕ) × IsTimeText (option_map (λ i. interface_of i.now) interface.entry) units text
        × (drop result room.new ≡ text ++ drop end room.old) }
{
    match interface {
        None => put_byte(room, end, b'-'),
        Some(interface) => put_time(room, end, interface.timestamp(units)),
    }
}

// Puts the lengths of a packet and its interface number before the text that begins at `end`, and returns the new beginning.
fn put_lengths(
    room: &mut [u8; ROOM],
    end: usize,
    stored: usize,
    original: u32,
    interface: u32,
) -> usize
    requires { (63 ≤ end) × (end ≤ 126) }
    ensures start { (result ≤ end) × (end ≤ result + 63) }
    ensures text { drop result room.new ≡ lengths_text stored original interface (drop end room.old) }
{
    let start = put_number(room, end, u64::from(interface));
    let start = put_byte(room, start, b' ');
    let start = put_number(room, start, u64::from(original));
    let start = put_byte(room, start, b'/');
    let start = put_number(room, start, stored as u64);
    put_byte(room, start, b' ')
}

// Puts the number of a packet before the rest of the line, which begins at `end`, and returns the new beginning.
fn put_packet_number(room: &mut [u8; ROOM], end: usize, number: u64) -> usize
    requires { (21 ≤ end) × (end ≤ 126) }
    ensures start { result ≤ end }
    ensures text { drop result room.new ≡ decimal number ++ (codes " " ++ drop end room.old) }
{
    let start = put_byte(room, end, b' ');
    put_number(room, start, number)
}

// Puts the time of a packet of this interface, if that is described, before the text that begins at `end`.
fn put_packet_time(
    room: &mut [u8; ROOM],
    end: usize,
    interface: Option<&InterfaceDescriptionBlock<'static>>,
    units: Option<u64>,
) -> usize
    requires { (41 ≤ end) × (end ≤ 126) }
    ensures start { (result ≤ end) × (end ≤ result + 41) }
    ensures text { (text : List ℕ) × IsUnitsText (option_map (λ i. interface_of i.now) interface.entry) units text
        × (drop result room.new ≡ text ++ drop end room.old) }
{
    match units {
        None => put_byte(room, end, b'-'),
        Some(units) => put_time_at(room, end, interface, units),
    }
}

/// Puts the line of a packet with this number before the line's ending, which begins at `end`, and returns where the line begins.
/// The line has the number, the time by the interface's clock, the stored and the original length, and the interface's number.
/// The time is a hyphen if the packet has none, if its interface isn't described, or if the seconds since 1970 are negative or need
/// more than 64 bits.
pub fn put_packet(
    room: &mut [u8; ROOM],
    end: usize,
    number: u64,
    interface: Option<&InterfaceDescriptionBlock<'static>>,
    packet: BlockPacket,
) -> usize
    requires { (125 ≤ end) × (end ≤ 126) }
    ensures within { result ≤ 126 }
    ensures line { IsPacketText (option_map (λ i. interface_of i.now) interface.entry) number (in_block packet.entry)
        (drop end room.old) (drop result room.new) }
{
    let stored = packet.bytes.len();
    let start = put_lengths(room, end, stored, packet.original_len, packet.interface);
    let start = put_packet_time(room, start, interface, packet.units);
    put_packet_number(room, start, number)
}
