//! Runs over a capture that comes in pieces.

ghost use Rattle.std.specs.Prelude.{◌<◌, ◌^◌, [], ⊤, length, All, IfOk, IfErr};
ghost use Rattle.pcap_core.specs.Answer.{Refuses};
ghost use Rattle.pcap_core.specs.Bytes.{IsOwned};
ghost use Rattle.pcap_items.specs.Pieces.{AfterEach, joined_pieces};
ghost use Rattle.pcap_classic.specs.declared.pcap.header.PcapHeader.{PcapHeader};
ghost use Rattle.pcap_classic.specs.HeaderText.{HeaderSays, LacksHeader, HasHeaderFault};
ghost use Rattle.pcap_classic.specs.PacketText.{packet_limit, Captured, content_of};
ghost use Rattle.pcap_classic.specs.Packets.{capture_format};
ghost use Rattle.pcap_classic.specs.Parser.{header_of};
ghost use Rattle.pcap_classic.specs.Pieces.{HoldsPackets};
ghost use Rattle.pcap_classic.specs.Run.{IsRun};

use crate::pcap::{Packet, PcapParser};
use crate::run::PcapRun;
use pcap_core::ResultParsing;
use pcap_items::run::{PieceParser, feed_pieces};
use std::alloc::Global;

impl PieceParser for PcapParser {
    type Item = Packet<'static>;

    type Setting = ();

    ghost State = { PcapHeader };

    ghost Value = { Captured };

    ghost Part = { Captured };

    ghost opens = { λ _. HeaderSays };

    ghost format = { capture_format packet_limit };

    ghost state = { header_of };

    ghost part = { λ packet. packet };

    ghost view = { content_of };

    ghost owned = { λ packet. IsOwned packet.data_ };

    fn open<'a>(
        _alloc: Global,
        _setting: (),
        held: &'a [u8],
    ) -> ResultParsing<(&'a [u8], PcapParser)> {
        PcapParser::new(held)
    }

    fn take<'a>(
        &mut self,
        alloc: Global,
        held: &'a [u8],
    ) -> ResultParsing<(&'a [u8], Packet<'static>)> {
        let (after, packet) = self.next_packet(held)?;
        Ok((after, packet.into_owned(alloc)?))
    }
}

/// Reads a whole capture that comes in pieces, with owned packets. For each piece, it also returns the number of packets in
/// the pieces up to that one, which is 0 until the capture's header is whole. Pieces may be empty.
///
/// The sum of the pieces' lengths must fit `usize`, which `pieces_fit` tests. The function keeps only bytes that no packet
/// has taken. It calls the parser at most three times for each packet, so the cost is linear in the bytes and the pieces.
///
/// Returns the header's error if the header is malformed, and `IncompleteBuffer` if it is truncated. `OutOfMemory` if a
/// buffer or list can't grow.
pub fn pieces_pcap(alloc: Global, pieces: &[&[u8]]) -> ResultParsing<(PcapRun<'static>, Vec<usize>)>
    requires { length (joined_pieces pieces.now) < 2 ^ 64 }
    ensures run { IfOk result (λ x. IsRun x.0 (joined_pieces pieces.now)) }
    ensures numbers { IfOk result (λ x. AfterEach HoldsPackets [] pieces.now x.1.items) }
    ensures owned { IfOk result (λ x. All (λ packet. IsOwned packet.data_) x.0.packets.items) }
    ensures refused { IfErr result (Refuses ⊤ (LacksHeader (joined_pieces pieces.now)) (HasHeaderFault (joined_pieces pieces.now))) }
{
    let fed = feed_pieces::<PcapParser>(alloc, (), pieces)?;
    let run = PcapRun {
        header: *fed.parser.header(),
        packets: fed.items,
        used: fed.used,
        rest: fed.rest,
    };
    Ok((run, fed.numbers))
}
