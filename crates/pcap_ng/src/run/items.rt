//! The blocks of a capture as the items of runs.

ghost use Rattle.pcap_core.specs.Bytes.{IsBorrowed};
ghost use Rattle.pcap_items.specs.Items.{ShowsFault};
ghost use Rattle.pcap_ng.specs.Blocks.{Item as BlockItem, MayGrow, block_format};
ghost use Rattle.pcap_ng.specs.Frames.{Framed, framed_of};
ghost use Rattle.pcap_ng.specs.Parser.{state_of};
ghost use Rattle.pcap_ng.specs.State.{State as BlockState};

use crate::pcapng::{Block, PcapNgParser};
use pcap_core::PcapError;
use pcap_items::run::{Found, Items, found_in};
use std::alloc::AllocError;

impl<'a> Items<'a> for PcapNgParser {
    type Item = Block<'a>;

    type Refusal = PcapError;

    ghost State = { BlockState };

    ghost Value = { BlockItem };

    ghost Part = { Framed };

    ghost format = { block_format };

    ghost state = { state_of };

    ghost part = { λ item. item.block };

    ghost view = { framed_of };

    ghost lent = { λ block. IsBorrowed block.body };

    ghost shows = { ShowsFault };

    ghost grows = { MayGrow };

    fn next_item(
        &mut self,
        slice: &'a [u8],
    ) -> Result<Found<(&'a [u8], Block<'a>), PcapError>, AllocError> {
        found_in(self.next_block(slice))
    }
}
