//! Packets as items with a head.

ghost use Rattle.std.specs.Prelude.{[]};
ghost use Rattle.pcap_core.specs.Answer.{Tells, number_in, whole};
ghost use Rattle.pcap_classic.specs.Packets.{reader_format};
ghost use Rattle.pcap_classic.specs.PacketText.{packet_limit, content_of, PacketHeaderSays};
ghost use Rattle.pcap_classic.specs.StatedPackets.{IsHeld, KnowsHeader};

use crate::common::TsResolution;
use crate::pcap::{Packet, PacketHeader, PcapHeader};
use byteorder::{BigEndian, LittleEndian};
use pcap_core::rules::Rule;
use pcap_core::{CowBytes, Endianness, PcapError, ResultParsing};
use pcap_items::stream::HasHead;

/// The packets after a capture's header, under its current fields.
#[derive(Clone, Copy)]
pub struct PacketsUnder<'a> {
    /// The header of the packets' capture.
    pub header: &'a PcapHeader,
}

// Returns the packet header at the front of a slice, in this byte order and resolution, and the bytes after it.
#[inline(always)]
fn header_in(
    endianness: Endianness,
    ts_resolution: TsResolution,
    slice: &[u8],
) -> ResultParsing<(&[u8], PacketHeader)>
    ensures tells { Tells (PacketHeaderSays packet_limit (number_in endianness) ts_resolution slice.now) (λ head. head) result }
{
    match endianness {
        Endianness::Big => PacketHeader::from_slice::<BigEndian>(slice, ts_resolution),
        Endianness::Little => PacketHeader::from_slice::<LittleEndian>(slice, ts_resolution),
    }
}

impl HasHead for PacketsUnder<'_> {
    ghost use Rattle.pcap_classic.specs.PacketText.{Captured};

    type Head = PacketHeader;

    ghost State = { Unit {0} };

    ghost Value = { Captured };

    ghost format = { λ packets. reader_format packet_limit packets.header.now };

    ghost state = { λ packets. tt };

    ghost knows = { λ packets head n bytes. KnowsHeader packets.header.now head n bytes };

    #[tactic(auto, unfolding(crate::specs::Packets::packet_format, crate::specs::Packets::refusing_format, crate::specs::Packets::reader_format))]
    fn head(&self) -> usize {
        if self.header.has_valid_magic() { 16 } else { 1 }
    }

    #[inline(always)]
    fn stated(&self, bytes: &[u8]) -> ResultParsing<(PacketHeader, usize)> {
        let Some((endianness, ts_resolution)) = self.header.kind() else {
            return Err(PcapError::from(Rule::CaptureMagic));
        };
        let (_, head) = header_in(endianness, ts_resolution, bytes)?;
        Ok((head, head.incl_len as usize))
    }
}

/// A packet whose bytes are held.
#[derive(Clone, Copy)]
pub struct HeldPacket<'a> {
    /// The capture's header, under which the packet was read.
    pub from: &'a PcapHeader,
    /// The packet's own header, as it was read.
    pub head: PacketHeader,
    /// The packet's bytes, beginning with those of its header.
    pub bytes: &'a [u8],
}

impl<'a> HeldPacket<'a> {
    /// Returns the packet, with its data lent from the bytes.
    pub fn packet(self) -> Packet<'a>
        requires { IsHeld self }
        ensures { (reader_format packet_limit self.entry.from.now).says tt self.entry.bytes.now (whole (content_of result) []) }
    {
        let (_front, data) = self.bytes.split_at(16);
        Packet {
            header: self.head,
            data_: CowBytes::Borrowed(data),
        }
    }
}
