//! Lenient runs over whole captures.

ghost use Rattle.std.specs.Prelude.{◌≡◌, ⊤, count_by, position, IfOk, IfErr};
ghost use Rattle.pcap_core.specs.Answer.{Refuses};
ghost use Rattle.pcap_core.specs.Errors.{IsMemory};
ghost use Rattle.pcap_classic.specs.HeaderText.{LacksHeader, HasHeaderFault};
ghost use Rattle.pcap_tolerant.specs.Run.{is_flawed, IsRunAsIs, HasPacketAsIs};

use crate::as_is::{PacketAsIs, next_packet_as_is};
use pcap_classic::pcap::{PcapHeader, PcapParser};
use pcap_core::{PcapError, ResultParsing};
use pcap_items::Rest;
use pcap_items::run::{Found, Items, found_in, parse_items};
use std::alloc::{AllocError, Global};

/// The result of a lenient run over a slice: the header, the packets, their length, and how the run ended.
#[derive(Debug, Drop)]
pub struct PcapRunAsIs<'a> {
    /// The header of the capture.
    pub header: PcapHeader,
    /// The packets of the capture in order, with their flaws. The slice lends their bytes.
    pub packets: Vec<PacketAsIs<'a>>,
    /// The number of bytes of the header and the packets.
    pub used: usize,
    /// The rest after the last packet: nothing, a truncated packet or a malformed one.
    pub rest: Rest,
}

impl PcapRunAsIs<'_> {
    /// Returns the number of packets that break a rule.
    pub fn flawed(&self) -> usize
        ensures { result ≡ count_by is_flawed self.now.packets.items }
    {
        self.packets
            .iter()
            .filter(|packet| packet.flaws.is_broken())
            .count()
    }

    /// Returns the index of the first packet that breaks a rule, counted from 0, or None if no packet does. Strict reading ends
    /// before this packet.
    pub fn first_flawed(&self) -> Option<usize>
        ensures { result ≡ position is_flawed self.now.packets.items }
    {
        self.packets
            .iter()
            .position(|packet| packet.flaws.is_broken())
    }
}

// A parser that reads packets of at most `limit` bytes leniently.
#[derive(Drop)]
pub(crate) struct ParserAsIs {
    pub(crate) parser: PcapParser,
    pub(crate) limit: u32,
}

impl<'a> Items<'a> for ParserAsIs {
    ghost use Rattle.pcap_items.specs.Items.{ShowsFault};
    ghost use Rattle.pcap_tolerant.specs.AsIs.{AsIs, as_it_is};
    ghost use Rattle.pcap_tolerant.specs.Run.{Setting, setting_of, any_as_is};

    type Item = PacketAsIs<'a>;

    type Refusal = PcapError;

    ghost State = { Setting };

    ghost Value = { AsIs };

    ghost Part = { AsIs };

    ghost format = { any_as_is };

    ghost state = { setting_of };

    ghost part = { λ packet. packet };

    ghost view = { as_it_is };

    ghost lent = { λ _. ⊤ };

    ghost shows = { ShowsFault };

    ghost grows = { λ _ _. ⊥ };

    fn next_item(
        &mut self,
        slice: &'a [u8],
    ) -> Result<Found<(&'a [u8], PacketAsIs<'a>), PcapError>, AllocError> {
        found_in(next_packet_as_is(&self.parser, slice, self.limit))
    }
}

/// Parses a whole classic capture from a slice leniently: the header, all packets of the longest front, and the state of the
/// rest. Only a packet whose stored length is above the limit, in bytes, ends the run with a refusal. A limit below 262144
/// counts as 262144.
///
/// Returns the header's error if the header is refused. Returns `OutOfMemory` if the list of packets can't grow.
pub fn parse_pcap_as_is<'a>(
    alloc: Global,
    bytes: &'a [u8],
    limit: u32,
) -> ResultParsing<PcapRunAsIs<'a>>
    ensures front { IfOk result (λ run. IsRunAsIs limit run bytes.now) }
    ensures refused { IfErr result (Refuses ⊤ (LacksHeader bytes.now) (HasHeaderFault bytes.now)) }
    ensures memory { IfErr result (λ e. IsMemory e → HasPacketAsIs limit bytes.now) }
{
    let (after_header, parser) = PcapParser::new(bytes)?;
    let mut parser = ParserAsIs { parser, limit };
    let run = parse_items(alloc, &mut parser, after_header)?;
    Ok(PcapRunAsIs {
        header: *parser.parser.header(),
        packets: run.items,
        used: bytes.len() - after_header.len() + run.used,
        rest: Rest::from(run.ended),
    })
}
