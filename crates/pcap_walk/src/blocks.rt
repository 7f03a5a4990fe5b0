//! A walker over the blocks of a PcapNg capture.

ghost use Rattle.std.specs.Prelude.{◌≡◌, IfSome};
ghost use Rattle.pcap_core.specs.Answer.{number_in};
ghost use Rattle.pcap_walk.specs.MetBlocks.{EnhancedInFront, met_block};

use crate::walking::{Front, Walker};
use byteorder::{BigEndian, ByteOrder, LittleEndian};
use pcap_core::{Endianness, ResultParsing};
use pcap_ng::pcapng::enhanced::split_frame;
use pcap_ng::pcapng::{BlockHeader, BlockType, BlocksAhead};
use std::io::Read;

// Returns the enhanced packet at the front of the bytes, with numbers read in this byte order.
#[inline(always)]
fn front_in<B: ByteOrder>(order: Endianness, bytes: &[u8]) -> Option<Front<BlockHeader>>
    requires { number_in order ≡ B.number_of }
    ensures { IfSome result (λ front. EnhancedInFront order bytes.now front.head front.size) }
{
    let (_body, rest) = split_frame::<B>(order, bytes)?;
    let size = bytes.len() - rest.len();
    let Ok(initial_len) = u32::try_from(size) else {
        return None;
    };
    Some(Front {
        head: BlockHeader {
            type_: BlockType::EnhancedPacket,
            initial_len,
            endianness: order,
        },
        size,
    })
}

// Does the same in either byte order.
#[inline(always)]
fn front_of(order: Endianness, bytes: &[u8]) -> Option<Front<BlockHeader>>
    ensures { IfSome result (λ front. EnhancedInFront order bytes.now front.head front.size) }
{
    match order {
        Endianness::Big => front_in::<BigEndian>(order, bytes),
        Endianness::Little => front_in::<LittleEndian>(order, bytes),
    }
}

impl Walker for BlocksAhead {
    ghost use Rattle.pcap_ng.specs.Ahead.{state_of, text_of};
    ghost use Rattle.pcap_ng.specs.Blocks.{Item as BlockItem, block_format};
    ghost use Rattle.pcap_ng.specs.State.{State as BlockState};

    type Head = BlockHeader;

    ghost Setting = { Unit {0} };

    ghost State = { BlockState };

    ghost Value = { BlockItem };

    ghost format = { λ setting. block_format };

    ghost setting = { λ blocks. tt };

    ghost state = { state_of };

    ghost value = { λ blocks. met_block (state_of blocks) };

    ghost held = { text_of };

    #[inline(always)]
    fn front(&self, bytes: &[u8]) -> Option<Front<BlockHeader>> {
        front_of(self.order(), bytes)
    }

    fn hold_next<R: Read>(
        &mut self,
        input: &mut R,
        read_failed: &mut bool,
    ) -> ResultParsing<Option<BlockHeader>> {
        BlocksAhead::hold_next(self, input, read_failed)
    }

    fn held(&self) -> &[u8] {
        self.text()
    }

    fn clear(&mut self) {
        BlocksAhead::clear(self);
    }
}
