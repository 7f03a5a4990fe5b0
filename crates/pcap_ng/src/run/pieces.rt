//! Runs over a PcapNg capture that comes in pieces.

ghost use Rattle.std.specs.Prelude.{◌<◌, ◌^◌, [], ⊤, length, All, IfOk, IfErr};
ghost use Rattle.pcap_core.specs.Answer.{Refuses, lacks, faulty};
ghost use Rattle.pcap_core.specs.Bytes.{IsOwned};
ghost use Rattle.pcap_items.specs.Pieces.{AfterEach, joined_pieces};
ghost use Rattle.pcap_ng.specs.Blocks.{Item as BlockItem, block_format};
ghost use Rattle.pcap_ng.specs.Frames.{Framed, framed_of};
ghost use Rattle.pcap_ng.specs.Opening.{OpeningSays};
ghost use Rattle.pcap_ng.specs.Parser.{state_of};
ghost use Rattle.pcap_ng.specs.Pieces.{HoldsBlocks};
ghost use Rattle.pcap_ng.specs.Run.{IsRun};
ghost use Rattle.pcap_ng.specs.State.{State as BlockState};

use crate::pcapng::{Block, PcapNgParser};
use crate::run::NgRun;
use pcap_core::ResultParsing;
use pcap_items::run::{PieceParser, feed_pieces};
use std::alloc::Global;

impl PieceParser for PcapNgParser {
    type Item = Block<'static>;

    type Setting = ();

    ghost State = { BlockState };

    ghost Value = { BlockItem };

    ghost Part = { Framed };

    ghost opens = { λ _. OpeningSays };

    ghost format = { block_format };

    ghost state = { state_of };

    ghost part = { λ item. item.block };

    ghost view = { framed_of };

    ghost owned = { λ block. IsOwned block.body };

    fn open<'a>(
        alloc: Global,
        _setting: (),
        held: &'a [u8],
    ) -> ResultParsing<(&'a [u8], PcapNgParser)> {
        PcapNgParser::new(alloc, held)
    }

    fn take<'a>(
        &mut self,
        alloc: Global,
        held: &'a [u8],
    ) -> ResultParsing<(&'a [u8], Block<'static>)> {
        let (after, block) = self.next_block(held)?;
        Ok((after, block.into_owned(alloc)?))
    }
}

/// Parses a capture that comes in pieces, and returns owned blocks. For each piece it also returns how many blocks after the
/// first are in that piece and the ones before it, or 0 while the first block is incomplete. Empty pieces count too.
///
/// The sum of the pieces' lengths must fit `usize`, which `pieces_fit` tests. The function keeps only bytes that no block has
/// taken, and calls the parser at most three times for each block, so the cost is linear in the bytes and the pieces.
///
/// Returns the errors of `PcapNgParser::new` for the first block, with `IncompleteBuffer` if it is truncated. Returns
/// `OutOfMemory` if something can't grow.
pub fn pieces_pcapng(alloc: Global, pieces: &[&[u8]]) -> ResultParsing<(NgRun<'static>, Vec<usize>)>
    requires { length (joined_pieces pieces.now) < 2 ^ 64 }
    ensures run { IfOk result (λ x. IsRun x.0 (joined_pieces pieces.now)) }
    ensures numbers { IfOk result (λ x. AfterEach HoldsBlocks [] pieces.now x.1.items) }
    ensures owned { IfOk result (λ x. All (λ block. IsOwned block.body) x.0.blocks.items) }
    ensures refused { IfErr result
        (Refuses ⊤ (λ n. OpeningSays (joined_pieces pieces.now) (lacks n)) (λ fault. OpeningSays (joined_pieces pieces.now) (faulty fault))) }
{
    let fed = feed_pieces::<PcapNgParser>(alloc, (), pieces)?;
    let run = NgRun {
        blocks: fed.items,
        parser: fed.parser,
        used: fed.used,
        rest: fed.rest,
    };
    Ok((run, fed.numbers))
}
