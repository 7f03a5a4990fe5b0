//! Lenient runs over captures that come in pieces.

ghost use Rattle.std.specs.Prelude.{◌<◌, ◌^◌, [], ⊤, length, IfOk, IfErr};
ghost use Rattle.pcap_core.specs.Answer.{Refuses};
ghost use Rattle.pcap_items.specs.Pieces.{AfterEach, joined_pieces};
ghost use Rattle.pcap_classic.specs.HeaderText.{LacksHeader, HasHeaderFault};
ghost use Rattle.pcap_tolerant.specs.Pieces.{HoldsAsIs, IsOwnedRunAsIs};

use crate::as_is::next_packet_as_is;
use crate::owned::OwnedAsIs;
use crate::run::ParserAsIs;
use pcap_classic::pcap::{PcapHeader, PcapParser};
use pcap_core::ResultParsing;
use pcap_items::Rest;
use pcap_items::run::{PieceParser, feed_pieces};
use std::alloc::Global;

/// The result of a lenient run over pieces: the header, the packets, their length, and how the run ended.
#[derive(Debug, Drop)]
pub struct OwnedRunAsIs {
    /// The header of the capture.
    pub header: PcapHeader,
    /// The packets of the capture in order, with their flaws. They own their bytes.
    pub packets: Vec<OwnedAsIs>,
    /// The number of bytes of the header and the packets.
    pub used: usize,
    /// The rest after the last packet: nothing, a truncated packet or a malformed one.
    pub rest: Rest,
}

impl PieceParser for ParserAsIs {
    ghost use Rattle.pcap_tolerant.specs.AsIs.{AsIs};
    ghost use Rattle.pcap_tolerant.specs.Pieces.{OpensUnder, owned_as_is};
    ghost use Rattle.pcap_tolerant.specs.Run.{Setting as SetTo, setting_of, any_as_is};

    type Item = OwnedAsIs;

    type Setting = u32;

    ghost State = { SetTo };

    ghost Value = { AsIs };

    ghost Part = { AsIs };

    ghost opens = { OpensUnder };

    ghost format = { any_as_is };

    ghost state = { setting_of };

    ghost part = { λ packet. packet };

    ghost view = { owned_as_is };

    ghost owned = { λ _. ⊤ };

    fn open<'a>(
        _alloc: Global,
        limit: u32,
        held: &'a [u8],
    ) -> ResultParsing<(&'a [u8], ParserAsIs)> {
        let (after, parser) = PcapParser::new(held)?;
        Ok((after, ParserAsIs { parser, limit }))
    }

    fn take<'a>(&mut self, alloc: Global, held: &'a [u8]) -> ResultParsing<(&'a [u8], OwnedAsIs)> {
        let (after, packet) = next_packet_as_is(&self.parser, held, self.limit)?;
        Ok((after, packet.to_owned(alloc)?))
    }
}

/// Parses a classic capture in pieces leniently. It returns the run, and the number of packets up to the end of each piece.
///
/// The packets are those of `parse_pcap_as_is` over the joined bytes under this limit. The number of packets is 0 while the
/// header isn't whole. Empty pieces count as pieces.
///
/// The lengths of the pieces together must fit `usize`, which `pieces_fit` of `pcap_classic` tests. The call keeps only bytes
/// that no packet has taken. It calls the parser at most three times for each packet, so the cost is linear in the bytes and
/// the pieces.
///
/// Returns the header's error if the header is refused, and `IncompleteBuffer` if it isn't whole. Returns `OutOfMemory` if a
/// list or a buffer can't grow.
pub fn pieces_pcap_as_is(
    alloc: Global,
    pieces: &[&[u8]],
    limit: u32,
) -> ResultParsing<(OwnedRunAsIs, Vec<usize>)>
    requires { length (joined_pieces pieces.now) < 2 ^ 64 }
    ensures run { IfOk result (λ x. IsOwnedRunAsIs limit x.0 (joined_pieces pieces.now)) }
    ensures numbers { IfOk result (λ x. AfterEach (HoldsAsIs limit) [] pieces.now x.1.items) }
    ensures refused { IfErr result (Refuses ⊤ (LacksHeader (joined_pieces pieces.now)) (HasHeaderFault (joined_pieces pieces.now))) }
{
    let fed = feed_pieces::<ParserAsIs>(alloc, limit, pieces)?;
    let run = OwnedRunAsIs {
        header: *fed.parser.parser.header(),
        packets: fed.items,
        used: fed.used,
        rest: fed.rest,
    };
    Ok((run, fed.numbers))
}
