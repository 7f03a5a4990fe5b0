//! The packet records of a classic capture.

ghost use Rattle.std.specs.Prelude.{◌≡◌, length, true, false};
ghost use Rattle.pcap_classic.specs.Parser.{header_of as header_under};
ghost use Rattle.pcapfile_cut.specs.Openings.{header_of};
ghost use Rattle.pcapfile_sort.specs.Packets.{IsTimed, time_in};
ghost use Rattle.pcapfile_sort.specs.Ranked.{ranked_at};

use crate::records::Records;
use pcap_classic::pcap::{PacketHeader, PcapParser};
use pcapfile_cut::Opening;

/// The nanoseconds in a second.
const SECOND: u64 = 1_000_000_000;

/// Returns the time of a packet in nanoseconds since 1970.
#[inline(always)]
pub(crate) fn time_of(header: PacketHeader) -> u64
    ensures { result ≡ time_in header }
{
    u64::from(header.ts_sec) * SECOND + u64::from(header.ts_nsec)
}

/// The opening of a classic capture, and a parser of the packet records under its header.
#[derive(Drop)]
pub(crate) struct PacketRecords<'a> {
    opening: &'a Opening,
    parser: PcapParser,
    ghost same: { header_under parser ≡ header_of opening.now },
}

impl<'a> PacketRecords<'a> {
    /// Returns the packet records after this opening.
    pub(crate) fn after(opening: &'a Opening) -> PacketRecords<'a>
        ensures { result.opening.now ≡ opening.now }
    {
        match PcapParser::with_header(*opening.header()) {
            Ok(parser) => PacketRecords { opening, parser },
            Err(_) => unreachable!(),
        }
    }
}

// Returns whether nothing follows a packet, and the packet has this time.
fn is_alone(rest: &[u8], header: PacketHeader, time: u128) -> bool
    ensures yes { result ≡ true → (length rest.now ≡ 0) × (time_in header ≡ time) }
    ensures no { result ≡ false → length rest.now ≡ 0 → time_in header ≡ time → ⊥ }
{
    rest.is_empty() && u128::from(time_of(header)) == time
}

// Returns whether the bytes are exactly one packet record, and the packet has this time.
fn is_packet(parser: &PcapParser, text: &[u8], time: u128) -> bool
    ensures yes { result ≡ true → IsTimed (header_under parser.now) (ranked_at time text.now) }
    ensures no { result ≡ false → IsTimed (header_under parser.now) (ranked_at time text.now) → ⊥ }
{
    match parser.next_packet(text) {
        Ok((rest, packet)) => is_alone(rest, packet.header, time),
        Err(_) => false,
    }
}

impl Records for PacketRecords<'_> {
    ghost use Rattle.pcapfile_sort.specs.Packets.{packet_captures};

    ghost format = { packet_captures };

    ghost opening = { λ packets. packets.opening.now };

    fn lead(&self) -> &[u8] {
        self.opening.bytes()
    }

    fn is_record(&self, rank: u128, text: &[u8]) -> bool {
        is_packet(&self.parser, text, rank)
    }
}
