//! A walker over the packet records of a classic capture.

ghost use Rattle.std.specs.Prelude.{◌≡◌, [], true, IfSome};
ghost use Rattle.pcap_core.specs.Answer.{number_in};
ghost use Rattle.pcap_items.specs.Held.{held_bytes};
ghost use Rattle.pcap_classic.specs.Magic.{is_magic, order_of, resolution_of};
ghost use Rattle.pcap_classic.specs.PacketText.{packet_limit};
ghost use Rattle.pcap_classic.specs.Packets.{packet_format, reader_format};
ghost use Rattle.pcap_walk.specs.MetPackets.{met_packet};
ghost use Rattle.pcap_walk.specs.Walks.{StandsInFront};

use crate::walking::{Front, Walker};
use byteorder::{BigEndian, ByteOrder, LittleEndian};
use pcap_classic::TsResolution;
use pcap_classic::pcap::{Packet, PacketHeader, PacketsUnder, PcapHeader};
use pcap_core::{Endianness, ResultParsing};
use pcap_items::stream::{Held, fill_item};
use std::alloc::Global;
use std::io::Read;

/// The packets after a header, and the one that is held.
#[derive(Drop)]
pub struct Packets<'a> {
    header: &'a PcapHeader,
    order: Endianness,
    ts_resolution: TsResolution,
    held: Held,
    ghost is_valid: { is_magic header.now.magic_number ≡ true },
    ghost order_is: { order ≡ order_of header.now.magic_number },
    ghost resolution_is: { ts_resolution ≡ resolution_of header.now.magic_number },
}

// Returns the packet at the front of the bytes, with numbers read in this byte order.
#[inline(always)]
fn front_in<B: ByteOrder>(ts_resolution: TsResolution, bytes: &[u8]) -> Option<Front<PacketHeader>>
    ensures { IfSome result (λ front. StandsInFront (packet_format packet_limit B.number_of ts_resolution) met_packet tt bytes.now front.head front.size) }
{
    match Packet::from_slice::<B>(bytes, ts_resolution) {
        Ok((after, packet)) => Some(Front {
            head: packet.header,
            size: bytes.len() - after.len(),
        }),
        Err(_) => None,
    }
}

// Does the same in either byte order.
#[inline(always)]
fn front_of(
    order: Endianness,
    ts_resolution: TsResolution,
    bytes: &[u8],
) -> Option<Front<PacketHeader>>
    ensures { IfSome result (λ front. StandsInFront (packet_format packet_limit (number_in order) ts_resolution) met_packet tt bytes.now front.head front.size) }
{
    match order {
        Endianness::Big => front_in::<BigEndian>(ts_resolution, bytes),
        Endianness::Little => front_in::<LittleEndian>(ts_resolution, bytes),
    }
}

impl<'a> Packets<'a> {
    /// Returns a walker over the packets after this header, which holds no packet yet.
    pub fn new(alloc: Global, header: &'a PcapHeader) -> Packets<'a>
        requires { is_magic header.now.magic_number ≡ true }
        ensures header { result.header.now ≡ header.now }
        ensures held { held_bytes result.held ≡ [] }
    {
        Packets {
            header,
            order: header.endianness(),
            ts_resolution: header.ts_resolution(),
            held: Held::new(alloc),
        }
    }
}

impl Walker for Packets<'_> {
    ghost use Rattle.pcap_classic.specs.declared.pcap.header.PcapHeader.{PcapHeader};
    ghost use Rattle.pcap_classic.specs.PacketText.{Captured};

    type Head = PacketHeader;

    ghost Setting = { PcapHeader };

    ghost State = { Unit {0} };

    ghost Value = { Captured };

    ghost format = { λ header. reader_format packet_limit header };

    ghost setting = { λ packets. packets.header.now };

    ghost state = { λ packets. tt };

    ghost value = { λ packets. met_packet };

    ghost held = { λ packets. held_bytes packets.held };

    #[inline(always)]
    fn front(&self, bytes: &[u8]) -> Option<Front<PacketHeader>> {
        front_of(self.order, self.ts_resolution, bytes)
    }

    fn hold_next<R: Read>(
        &mut self,
        input: &mut R,
        read_failed: &mut bool,
    ) -> ResultParsing<Option<PacketHeader>> {
        let packets = PacketsUnder {
            header: self.header,
        };
        fill_item(&packets, input, read_failed, &mut self.held)
    }

    fn held(&self) -> &[u8] {
        self.held.as_slice()
    }

    fn clear(&mut self) {
        self.held.clear();
    }
}
