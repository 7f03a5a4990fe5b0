//! Listing the blocks of a PcapNg capture, with any form of lines.

ghost use Rattle.std.specs.Prelude.{⊤, ◌≡◌, ℕ, List};
ghost use Rattle.pcap_items.specs.Format.{Format};
ghost use Rattle.pcap_ng.specs.Blocks.{Item, item_of};
ghost use Rattle.pcap_ng.specs.Parser.{state_of};
ghost use Rattle.pcap_ng.specs.State.{State};
ghost use Rattle.pcap_program.specs.Lines.{WritesLine};
ghost use Rattle.capcopy_run.specs.OfBlocks.{AreBlocks};

use crate::items::Lister;
use pcap_file::PcapError;
use pcap_file::pcapng::{Block, PcapNgParser};
use pcap_program::Exit;
use std::alloc::Global;
use std::io::{BufRead, Write};

/// A writer of lines for blocks.
pub trait BlockLine {
    ghost Setting: { Type 0 };

    ghost Kept: { Type 0 };

    ghost Reached: { Type 0 };

    ghost Value: { Type 0 };

    ghost line: { Setting → ℕ → Value → List ℕ → Type 0 };

    ghost format: { Format Reached Value };

    ghost reached: { State → Kept → Reached };

    ghost value: { Kept → Item → Value };

    ghost behind: { Kept → Item → Kept };

    ghost setting: { Self → Setting };

    ghost kept: { Self → Kept };

    /// Writes the line of the block at this index, if it has one. The parser is in its state after the block.
    fn write_line<W: Write>(
        &mut self,
        alloc: Global,
        output: &mut W,
        index: u64,
        parser: &PcapNgParser,
        block: &Block,
    ) -> Result<(), Exit>
        ensures same { setting self.new ≡ setting self.old }
        ensures keeps { kept self.new ≡ behind (kept self.old) (item_of (state_of parser.now) block.now) }
        ensures writes { WritesLine (line (setting self.old) index (value (kept self.old) (item_of (state_of parser.now) block.now)))
            (W.contents output.old) (W.contents output.new) result };

    ghost are_blocks: { AreBlocks format reached value behind };
}

/// The blocks of a capture that follow those of a parser, and the writer of their lines.
#[derive(Drop)]
pub struct Blocks<L> {
    /// The writer of their lines.
    pub lines: L,
    /// The parser, in its state before the next block.
    pub parser: PcapNgParser,
}

impl<L: BlockLine> Lister for Blocks<L> {
    ghost Setting = { L.Setting };

    ghost State = { L.Reached };

    ghost Value = { L.Value };

    ghost grows = { ⊤ };

    ghost is_line = { L.line };

    ghost format = { λ setting. L.format };

    ghost setting = { λ blocks. L.setting blocks.lines };

    ghost state = { λ blocks. L.reached (state_of blocks.parser) (L.kept blocks.lines) };

    fn list_shown<W: Write>(
        &mut self,
        alloc: Global,
        shown: &[u8],
        output: &mut W,
        listed: &mut u64,
        most: u64,
    ) -> Result<usize, Exit> {
        let mut rest = shown;
        while *listed < most {
            match self.parser.next_block(rest) {
                Ok((after, block)) => {
                    let lines = &mut self.lines;
                    lines.write_line(alloc, output, *listed + 1, &self.parser, &block)?;
                    *listed += 1;
                    rest = after;
                }
                Err(PcapError::OutOfMemory(_)) => return Err(Exit::Memory),
                Err(_) => break,
            }
        }
        Ok(shown.len() - rest.len())
    }

    fn list_torn<R: BufRead, W: Write>(
        &mut self,
        alloc: Global,
        input: &mut R,
        output: &mut W,
        listed: &mut u64,
        most: u64,
    ) -> Result<bool, Exit> {
        let Some(block) = self.parser.read_block(input)? else {
            return Ok(false);
        };
        let lines = &mut self.lines;
        lines.write_line(alloc, output, *listed + 1, &self.parser, &block)?;
        *listed += 1;
        Ok(true)
    }
}
