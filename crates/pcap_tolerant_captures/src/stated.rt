//! Blocks read leniently, as items with a head.

ghost use Rattle.std.specs.Prelude.{◌≡◌};
ghost use Rattle.pcap_tolerant_captures.specs.State.{order_at};
ghost use Rattle.pcap_tolerant_captures.specs.HeldAsIs.{state_in};

use crate::parser::PcapNgParserAsIs;
use pcap_core::{Endianness, PcapError, ResultParsing};
use pcap_items::stream::HasHead;
use pcap_ng::pcapng::Block;

/// The blocks behind those that a parser has read, or all blocks if there is no parser yet, read leniently.
#[derive(Clone, Copy)]
pub(crate) struct BlocksAsIs<'a> {
    pub(crate) parser: &'a Option<PcapNgParserAsIs>,
}

// Returns the byte order of all blocks except section headers.
pub(crate) fn order_in(parser: &Option<PcapNgParserAsIs>) -> Endianness
    ensures { result ≡ order_at (state_in parser.now) }
{
    match parser {
        None => Endianness::Big,
        Some(parser) => parser.order(),
    }
}

impl HasHead for BlocksAsIs<'_> {
    ghost use Rattle.pcap_tolerant_captures.specs.Blocks.{Item, as_is_format};
    ghost use Rattle.pcap_tolerant_captures.specs.State.{State as BlockState};

    type Head = ();

    ghost State = { BlockState };

    ghost Value = { Item };

    ghost format = { λ blocks. as_is_format };

    ghost state = { λ blocks. state_in blocks.parser.now };

    ghost knows = { λ blocks head n bytes. Unit {0} };

    #[tactic(auto, unfolding(crate::specs::Blocks::as_is_format))]
    fn head(&self) -> usize {
        12
    }

    fn stated(&self, bytes: &[u8]) -> ResultParsing<((), usize)> {
        let refusal = match Block::from_slice(order_in(self.parser), bytes) {
            Ok(_whole) => return Ok(((), 0)),
            Err(e) => e,
        };
        match refusal {
            PcapError::IncompleteBuffer(n) => Ok(((), n)),
            _ => Err(refusal),
        }
    }
}
