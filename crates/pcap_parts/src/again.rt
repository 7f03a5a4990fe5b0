//! Makes a PcapNg parser again for the blocks behind a cut.

ghost use Rattle.pcap_ng.specs.Parser.{state_of};
ghost use Rattle.pcap_parts.specs.Resume.{IsFed, RefusesOne, from_places};
ghost use Rattle.std.specs.Prelude.{◌≡◌, drop, IfErr, IfOk};

use pcap_core::ResultParsing;
use pcap_ng::pcapng::PcapNgParser;
use std::alloc::Global;

// Returns the bytes from a place on, or no bytes if the place is behind the end.
fn from_place(bytes: &[u8], place: usize) -> &[u8]
    ensures { result.now ≡ drop place bytes.now }
{
    &bytes[place.min(bytes.len())..]
}

/// Makes a parser for the blocks behind a boundary again, from the place of the section header in force there and the places of its
/// interface descriptions before the boundary, in order. Places are in bytes from the capture's beginning. The call reads only the
/// blocks at these places. `laws::resumed_parser_has_the_same_state` says that the parser has the state to which all blocks before the
/// boundary lead.
///
/// The errors are those of `PcapNgParser::new` at the header's place, and then of `next_block` at each other place in turn. At or behind
/// the end of the bytes, 12 bytes are missing.
pub fn resume(
    alloc: Global,
    bytes: &[u8],
    header: usize,
    interfaces: &[usize],
) -> ResultParsing<PcapNgParser>
    ensures fed { IfOk result (λ parser. IsFed (drop header bytes.now) (from_places bytes.now interfaces.now) (state_of parser)) }
    ensures refused { IfErr result (RefusesOne (drop header bytes.now) (from_places bytes.now interfaces.now)) }
{
    let (_, mut parser) = PcapNgParser::new(alloc, from_place(bytes, header))?;
    let mut left = interfaces;
    while let Some((place, others)) = left.split_first() {
        let (_, block) = parser.next_block(from_place(bytes, *place))?;
        left = others;
    }
    Ok(parser)
}
