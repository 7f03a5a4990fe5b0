//! Skips whole blocks of a PcapNg capture.

ghost use Rattle.pcap_ng.specs.Blocks.{MayGrow, block_format};
ghost use Rattle.pcap_ng.specs.Parser.{state_of};
ghost use Rattle.pcap_parts.specs.Parts.{KeepsNext, PassesTo};
ghost use Rattle.std.specs.Prelude.{◌≡◌, ◌≤◌, ◌+◌, length, IfOk, OnErr};

use crate::skip::{Passed, rest_of_all};
use pcap_items::rest_or_memory;
use pcap_ng::pcapng::PcapNgParser;
use std::alloc::AllocError;

/// Skips whole blocks at the front of a slice, up to the first block boundary at which at least `at_least` bytes are skipped. If the
/// whole blocks have fewer bytes, all of them are skipped. The parser follows the blocks: it reads only the bodies of section headers
/// and interface descriptions. `rest` says why no block follows, as the rest of `run::parse_pcapng` does.
///
/// Returns an error if there is no memory for a section or an interface. The parser then has the state before that block.
pub fn skip_blocks<'a>(
    parser: &mut PcapNgParser,
    slice: &'a [u8],
    at_least: usize,
) -> Result<Passed<'a>, AllocError>
    ensures passes { IfOk result (λ x. PassesTo block_format (state_of parser.old) (state_of parser.new) slice.now x.after.now at_least x.items x.rest) }
    ensures few { IfOk result (λ x. x.items + length x.after.now ≤ length slice.now) }
    ensures memory { OnErr result (KeepsNext block_format MayGrow (state_of parser.old) (state_of parser.new) slice.now at_least) }
{
    let last = slice.len().saturating_sub(at_least);
    let mut items = 0;
    let mut after = slice;
    while after.len() > last {
        match parser.next_block(after) {
            Ok((next, block)) => {
                after = next;
                items += 1;
            }
            Err(error) => {
                return Ok(Passed {
                    items,
                    after,
                    rest: Some(rest_or_memory(error)?),
                });
            }
        }
    }
    Ok(Passed {
        items,
        after,
        rest: rest_of_all(slice.len(), at_least),
    })
}
