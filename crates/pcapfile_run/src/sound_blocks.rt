//! A walker over the blocks of a PcapNg capture whose bodies are well-formed.

ghost use Rattle.std.specs.Prelude.{◌≡◌, []};
ghost use Rattle.pcap_ng.specs.Frames.{Framed, FrameSays};
ghost use Rattle.pcap_core.specs.Answer.{whole};
ghost use Rattle.pcapfile_run.specs.SoundBlocks.{TellsBody};

use pcap_file::pcapng::{Block, BlockHeader, BlocksAhead};
use pcap_file::{Endianness, ResultParsing};
use pcap_walk::{Front, Walker};
use std::alloc::Global;
use std::io::Read;

/// The blocks of a PcapNg capture up to the first one with a malformed body.
#[derive(Drop)]
pub(crate) struct SoundBlocks {
    alloc: Global,
    blocks: BlocksAhead,
}

// Parses the body of the block in these bytes. `order` is the byte order if the block is not a section header.
fn parse_body(alloc: Global, order: Endianness, text: &[u8]) -> ResultParsing<()>
    ensures { (block : Framed) → FrameSays order text.now (whole block []) → TellsBody block result }
{
    let (_rest, block) = Block::from_slice(order, text)?;
    block.parsed(alloc)?;
    Ok(())
}

impl SoundBlocks {
    /// Returns a walker over these blocks.
    pub(crate) fn new(alloc: Global, blocks: BlocksAhead) -> SoundBlocks
        ensures { result.blocks ≡ blocks }
    {
        SoundBlocks { alloc, blocks }
    }
}

impl Walker for SoundBlocks {
    ghost use Rattle.pcap_ng.specs.Ahead.{state_of, text_of};
    ghost use Rattle.pcap_ng.specs.Blocks.{Item as BlockItem};
    ghost use Rattle.pcap_ng.specs.State.{State as BlockState};
    ghost use Rattle.pcap_walk.specs.MetBlocks.{met_block};
    ghost use Rattle.pcapfile_run.specs.SoundBlocks.{sound_blocks};

    type Head = BlockHeader;

    ghost Setting = { Unit {0} };

    ghost State = { BlockState };

    ghost Value = { BlockItem };

    ghost format = { λ setting. sound_blocks };

    ghost setting = { λ walker. tt };

    ghost state = { λ walker. state_of walker.blocks };

    ghost value = { λ walker. met_block (state_of walker.blocks) };

    ghost held = { λ walker. text_of walker.blocks };

    #[inline(always)]
    fn front(&self, bytes: &[u8]) -> Option<Front<BlockHeader>> {
        let front = self.blocks.front(bytes)?;
        match parse_body(self.alloc, self.blocks.order(), &bytes[..front.size]) {
            Ok(()) => Some(front),
            Err(_) => None,
        }
    }

    fn hold_next<R: Read>(
        &mut self,
        input: &mut R,
        read_failed: &mut bool,
    ) -> ResultParsing<Option<BlockHeader>> {
        let order = self.blocks.order();
        let Some(head) = self.blocks.hold_next(input, read_failed)? else {
            return Ok(None);
        };
        parse_body(self.alloc, order, self.blocks.text())?;
        Ok(Some(head))
    }

    fn held(&self) -> &[u8] {
        self.blocks.text()
    }

    fn clear(&mut self) {
        BlocksAhead::clear(&mut self.blocks);
    }
}
