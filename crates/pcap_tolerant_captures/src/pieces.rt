//! Lenient runs over PcapNg captures that come in pieces.

ghost use Rattle.std.specs.Prelude.{◌<◌, ◌^◌, [], ⊤, length, All, IfOk, IfErr};
ghost use Rattle.pcap_core.specs.Answer.{Refuses, lacks, faulty};
ghost use Rattle.pcap_core.specs.Bytes.{IsOwned};
ghost use Rattle.pcap_items.specs.Pieces.{AfterEach, joined_pieces};
ghost use Rattle.pcap_tolerant_captures.specs.Blocks.{AsIsSays, Item as BlockItem};
ghost use Rattle.pcap_tolerant_captures.specs.Pieces.{FirstSays, HoldsBlocksAsIs, Kept, kept_format, kept_of};
ghost use Rattle.pcap_tolerant_captures.specs.Run.{IsRunAsIs, Seen, all_of, seen_in, seen_of};
ghost use Rattle.pcap_tolerant_captures.specs.State.{opening};

use crate::block::BlockAsIs;
use crate::parser::{OpenedAsIs, PcapNgParserAsIs};
use crate::run::{NgRunAsIs, first_flawed};
use pcap_core::ResultParsing;
use pcap_items::run::{PieceParser, feed_pieces};
use std::alloc::Global;

impl PieceParser for OpenedAsIs<'static> {
    type Item = BlockAsIs<'static>;

    type Setting = ();

    ghost State = { Kept };

    ghost Value = { BlockItem };

    ghost Part = { Seen };

    ghost opens = { λ _. FirstSays };

    ghost format = { kept_format };

    ghost state = { kept_of };

    ghost part = { seen_in };

    ghost view = { seen_of };

    ghost owned = { λ block. IsOwned block.block.body };

    fn open<'a>(
        alloc: Global,
        _setting: (),
        held: &'a [u8],
    ) -> ResultParsing<(&'a [u8], OpenedAsIs<'static>)> {
        let (after, opened) = PcapNgParserAsIs::new(alloc, held)?;
        let OpenedAsIs { parser, first } = opened;
        let first = first.into_owned(alloc)?;
        Ok((after, OpenedAsIs { parser, first }))
    }

    fn take<'a>(
        &mut self,
        alloc: Global,
        held: &'a [u8],
    ) -> ResultParsing<(&'a [u8], BlockAsIs<'static>)> {
        let (after, block) = self.parser.next_block_as_is(held)?;
        Ok((after, block.into_owned(alloc)?))
    }
}

/// Parses a PcapNg capture in pieces leniently. It returns the run, and the number of blocks after the first up to the end of
/// each piece.
///
/// The blocks are those of `parse_pcapng_as_is` over the joined bytes, each with a body of its own. The number of blocks is 0
/// while the first block isn't whole. Empty pieces count as pieces.
///
/// The lengths of the pieces together must fit `usize`, which `pieces_fit` of `pcap_file` tests. The call keeps only bytes that
/// no block has taken. It calls the parser at most three times for each block, so the cost is linear in the bytes and the
/// pieces.
///
/// Returns the errors of `PcapNgParserAsIs::new` for the first block, and `IncompleteBuffer` if it isn't whole. Returns
/// `OutOfMemory` if a list or a buffer can't grow.
pub fn pieces_pcapng_as_is(
    alloc: Global,
    pieces: &[&[u8]],
) -> ResultParsing<(NgRunAsIs<'static>, Vec<usize>)>
    requires { length (joined_pieces pieces.now) < 2 ^ 64 }
    ensures run { IfOk result (λ x. IsRunAsIs x.0 (joined_pieces pieces.now)) }
    ensures numbers { IfOk result (λ x. AfterEach HoldsBlocksAsIs [] pieces.now x.1.items) }
    ensures owned { IfOk result (λ x. All (λ block. IsOwned block.block.body) (all_of x.0)) }
    ensures refused { IfErr result (Refuses ⊤ (λ n. AsIsSays opening (joined_pieces pieces.now) (lacks n))
        (λ fault. AsIsSays opening (joined_pieces pieces.now) (faulty fault))) }
{
    let fed = feed_pieces::<OpenedAsIs>(alloc, (), pieces)?;
    let OpenedAsIs { parser, first } = fed.parser;
    let first_flawed = first_flawed(&first, fed.items.as_slice(), fed.used);
    let run = NgRunAsIs {
        first,
        blocks: fed.items,
        parser,
        used: fed.used,
        rest: fed.rest,
        first_flawed,
    };
    Ok((run, fed.numbers))
}
