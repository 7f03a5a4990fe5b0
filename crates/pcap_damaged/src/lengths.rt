//! Packets of a damaged capture that follow each other by their stored lengths, whatever their times.

ghost use Rattle.std.specs.Prelude.{◌↔◌, IsTrue};
ghost use Rattle.pcap_classic.specs.Parser.{header_of};
ghost use Rattle.pcap_damaged.specs.Lengths.{FollowByLength, HasNumbers};
ghost use Rattle.pcap_tolerant.specs.AsIs.{as_it_is};

use pcap_classic::pcap::PcapParser;
use pcap_tolerant::{PacketAsIs, next_packet_as_is};

/// The number of packets that must follow each other by their lengths.
const IN_A_ROW: usize = 4;

// Returns whether one of the numbers of a packet's head is not 0.
fn has_numbers(packet: &PacketAsIs<'_>) -> bool
    ensures { IsTrue result ↔ HasNumbers (as_it_is packet.now) }
{
    packet.ts_sec > 0 || packet.fraction > 0 || packet.incl_len > 0 || packet.orig_len > 0
}

// Returns whether so many packets follow each other from the front of the slice by their stored lengths, or fewer, at least one, to its end.
fn are_in_a_row(parser: &PcapParser, slice: &[u8], count: usize) -> bool
    ensures { IsTrue result ↔ FollowByLength (header_of parser.now) count slice.now }
{
    let mut left = slice;
    let mut more = count;
    while more > 0 {
        match next_packet_as_is(parser, left, 0) {
            Ok((rest, packet)) => {
                if !has_numbers(&packet) {
                    return false;
                }
                if rest.len() == 0 {
                    return true;
                }
                left = rest;
                more -= 1;
            }
            Err(_e) => return false,
        }
    }
    true
}

/// Returns whether four packets follow each other from the front of the slice by their stored lengths, or fewer, at least one, to its end.
/// Their times say nothing. They may have flaws, but no head consists of zeros.
pub fn follow_by_length(parser: &PcapParser, slice: &[u8]) -> bool
    ensures { IsTrue result ↔ FollowByLength (header_of parser.now) 4 slice.now }
{
    are_in_a_row(parser, slice, IN_A_ROW)
}
