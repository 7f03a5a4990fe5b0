//! Packets read leniently, as items with a head.

ghost use Rattle.std.specs.Prelude.{IsTrue};
ghost use Rattle.pcap_core.specs.Answer.{Tells, number_in};
ghost use Rattle.pcap_classic.specs.Magic.{is_magic, order_of, resolution_of};
ghost use Rattle.pcap_tolerant.specs.AsIs.{raised, HeadAsIsSays};

use crate::as_is::HeadAsIs;
use byteorder::{BigEndian, LittleEndian};
use pcap_classic::pcap::{PcapHeader, PcapParser};
use pcap_core::{Endianness, ResultParsing};
use pcap_items::stream::HasHead;

/// The packets of a parser's capture with a stored length of at most `limit` bytes, read leniently.
#[derive(Clone, Copy)]
pub(crate) struct PacketsAsIs<'a> {
    pub(crate) parser: &'a PcapParser,
    pub(crate) limit: u32,
}

// Reads the packet head at the front of a slice under this header, and returns what follows it and the head.
#[inline(always)]
fn head_under<'a>(
    header: &PcapHeader,
    slice: &'a [u8],
    limit: u32,
) -> ResultParsing<(&'a [u8], HeadAsIs)>
    requires { IsTrue (is_magic header.now.magic_number) }
    ensures tells { let magic = header.now.magic_number in
        Tells (HeadAsIsSays (raised limit) (number_in (order_of magic)) (resolution_of magic) slice.now) (λ head. head) result }
{
    let ts_resolution = header.ts_resolution();
    match header.endianness() {
        Endianness::Big => HeadAsIs::from_slice::<BigEndian>(slice, ts_resolution, limit),
        Endianness::Little => HeadAsIs::from_slice::<LittleEndian>(slice, ts_resolution, limit),
    }
}

impl HasHead for PacketsAsIs<'_> {
    ghost use Rattle.pcap_classic.specs.Parser.{header_of};
    ghost use Rattle.pcap_tolerant.specs.AsIs.{AsIs};
    ghost use Rattle.pcap_tolerant.specs.KnownHeads.{KnowsAsIs};
    ghost use Rattle.pcap_tolerant.specs.Run.{as_is_under};

    type Head = HeadAsIs;

    ghost State = { Unit {0} };

    ghost Value = { AsIs };

    ghost format = { λ packets. as_is_under packets.limit (header_of packets.parser.now) };

    ghost state = { λ packets. tt };

    ghost knows = { λ packets head n bytes. KnowsAsIs packets.limit (header_of packets.parser.now) head n bytes };

    #[tactic(auto, unfolding(crate::specs::AsIs::as_is_format))]
    fn head(&self) -> usize {
        16
    }

    #[inline(always)]
    fn stated(&self, bytes: &[u8]) -> ResultParsing<(HeadAsIs, usize)> {
        let (_, head) = head_under(self.parser.header(), bytes, self.limit)?;
        Ok((head, head.incl_len as usize))
    }
}
