//! Lenient runs over whole PcapNg captures.

ghost use Rattle.std.specs.Prelude.{◌≡◌, ◌<◌, ◌≤◌, ◌^◌, ◌∷◌, All, count_by, sum_by, length, position, IfOk, IfErr, IfSome};
ghost use Rattle.pcap_core.specs.Answer.{Refuses, lacks, faulty};
ghost use Rattle.pcap_core.specs.Bytes.{IsBorrowed};
ghost use Rattle.pcap_tolerant_captures.specs.Blocks.{AsIsSays, MayGrow};
ghost use Rattle.pcap_tolerant_captures.specs.Run.{all_of, is_flawed, size_of, IsFirstFlawed, IsRunAsIs};
ghost use Rattle.pcap_tolerant_captures.specs.State.{opening};

use crate::block::BlockAsIs;
use crate::parser::{OpenedAsIs, PcapNgParserAsIs};
use pcap_core::{PcapError, ResultParsing};
use pcap_items::Rest;
use pcap_items::run::{Found, Items, found_in, parse_items};
use std::alloc::{AllocError, Global};

/// The place of a block with a flaw in a capture.
#[derive(Clone, Copy, Debug)]
pub struct FlawedAt {
    /// The index of the block in the capture, counted from 0, which is the first section header.
    pub block: usize,
    /// The number of bytes of the capture before the block.
    pub offset: usize,
}

/// The result of a lenient run over a slice: the blocks, the parser after them, their length, how the run ended, and the place
/// of the first flaw.
#[derive(Drop)]
pub struct NgRunAsIs<'a> {
    /// The first section header.
    pub first: BlockAsIs<'a>,
    /// The blocks after the first section header, in order.
    pub blocks: Vec<BlockAsIs<'a>>,
    /// The parser after the blocks, with the section in force there and its interfaces.
    pub parser: PcapNgParserAsIs,
    /// The number of bytes of the first section header and the blocks.
    pub used: usize,
    /// The rest after the last block: nothing, a truncated block or a malformed one.
    pub rest: Rest,
    /// The place of the first block with a flaw, or None if no block has one. Strict reading ends before this block.
    pub first_flawed: Option<FlawedAt>,
}

impl NgRunAsIs<'_> {
    /// Returns the number of blocks with a flaw, including the first section header.
    pub fn flawed(&self) -> usize
        ensures { result ≡ count_by is_flawed (all_of self.now) }
    {
        let later = self.blocks.iter().filter(|block| block.is_flawed()).count();
        if self.first.is_flawed() {
            later + 1
        } else {
            later
        }
    }
}

impl<'a> Items<'a> for PcapNgParserAsIs {
    ghost use Rattle.pcap_items.specs.Items.{ShowsFault};
    ghost use Rattle.pcap_tolerant_captures.specs.Blocks.{Item as BlockItem, as_is_format};
    ghost use Rattle.pcap_tolerant_captures.specs.Run.{Seen, seen_in, seen_of};
    ghost use Rattle.pcap_tolerant_captures.specs.State.{State as BlockState, state_of};

    type Item = BlockAsIs<'a>;

    type Refusal = PcapError;

    ghost State = { BlockState };

    ghost Value = { BlockItem };

    ghost Part = { Seen };

    ghost format = { as_is_format };

    ghost state = { state_of };

    ghost part = { seen_in };

    ghost view = { seen_of };

    ghost lent = { λ block. IsBorrowed block.block.body };

    ghost shows = { ShowsFault };

    ghost grows = { MayGrow };

    fn next_item(
        &mut self,
        slice: &'a [u8],
    ) -> Result<Found<(&'a [u8], BlockAsIs<'a>), PcapError>, AllocError> {
        found_in(self.next_block_as_is(slice))
    }
}

// Returns the number of bytes that these blocks take.
fn length_of(blocks: &[BlockAsIs]) -> usize
    requires { sum_by size_of blocks.now < 2 ^ 64 }
    ensures { result ≡ sum_by size_of blocks.now }
{
    blocks
        .iter()
        .map(|block| block.block.initial_len as usize)
        .sum()
}

// Returns the index of the first of these blocks that has a flaw.
fn place_of_flawed(blocks: &[BlockAsIs]) -> Option<usize>
    ensures place { result ≡ position is_flawed blocks.now }
    ensures within { IfSome result (λ index. index < length blocks.now) }
{
    blocks.iter().position(|block| block.is_flawed())
}

// Returns the place of the first block with a flaw among blocks that take at most `used` bytes.
pub(crate) fn first_flawed(first: &BlockAsIs, blocks: &[BlockAsIs], used: usize) -> Option<FlawedAt>
    requires { sum_by size_of (first.now ∷ blocks.now) ≤ used }
    ensures { IsFirstFlawed (first.now ∷ blocks.now) result }
{
    if first.is_flawed() {
        return Some(FlawedAt {
            block: 0,
            offset: 0,
        });
    }
    match place_of_flawed(blocks) {
        None => None,
        Some(index) => Some(FlawedAt {
            block: index + 1,
            offset: first.block.initial_len as usize + length_of(&blocks[..index]),
        }),
    }
}

/// Parses a whole PcapNg capture from a slice leniently: all blocks of its longest front, and the state of the rest. A block
/// ends the run with a refusal only if its frame breaks a rule, or if it is a section header that names no byte order or has a
/// body under 16 bytes.
///
/// Returns the errors of `PcapNgParserAsIs::new` for the first block. If a later block is refused, the run ends before it and
/// `rest` reports the refusal. Returns `OutOfMemory` if something can't grow, at any block.
pub fn parse_pcapng_as_is<'a>(alloc: Global, bytes: &'a [u8]) -> ResultParsing<NgRunAsIs<'a>>
    ensures front { IfOk result (λ run. IsRunAsIs run bytes.now) }
    ensures borrowed { IfOk result (λ run. All (λ block. IsBorrowed block.block.body) (all_of run)) }
    ensures refused { IfErr result (Refuses (MayGrow opening bytes.now) (λ n. AsIsSays opening bytes.now (lacks n))
        (λ fault. AsIsSays opening bytes.now (faulty fault))) }
{
    let (after_first, opened) = PcapNgParserAsIs::new(alloc, bytes)?;
    let head = bytes.len() - after_first.len();
    let OpenedAsIs { mut parser, first } = opened;
    let run = parse_items(alloc, &mut parser, after_first)?;
    let used = head + run.used;
    let first_flawed = first_flawed(&first, run.items.as_slice(), used);
    Ok(NgRunAsIs {
        first,
        blocks: run.items,
        parser,
        used,
        rest: Rest::from(run.ended),
        first_flawed,
    })
}
