//! Reads blocks of PcapNg captures that come in pieces, from a buffer of the caller (the room).

ghost use Rattle.std.specs.Prelude.{◌≡◌, None};
ghost use Rattle.pcap_ng.specs.State.{State};
ghost use Rattle.pcapfile_values.specs.Blocks.{ShowsState, order_shown};
ghost use Rattle.pcapfile_c.specs.PushBlocks.{TakesNextBlock, RefusesNextBlock};
ghost use Rattle.pcapfile_c.specs.Readers.{block_reader};

use crate::blocks::pcapfile_take_block;
use crate::push::PcapfilePush;
use pcapfile_values::blocks::{PcapfileBlock, PcapfileSection};
use pcapfile_values::errors::PcapfileError;
use pcapfile_values::shown::PcapfileBytes;
use std::alloc::Global;

/// Reads the block at the front of the held bytes. `section` is the state before the block, and then after it. The block's body is
/// borrowed from the room. Statuses are those of `pcapfile_take_block`. If the block is refused, only `error` changes. Status 10: the
/// held bytes are outside of the room, and nothing changed.
#[unsafe(no_mangle)]
pub extern "C" fn pcapfile_push_block<'a>(
    alloc: Global,
    push: &mut PcapfilePush,
    section: &mut PcapfileSection,
    room: &'a [u8],
    block: &mut PcapfileBlock<'a>,
    error: &mut PcapfileError,
) -> i32
    ensures taken { (q : State) → ShowsState section.old q →
        TakesNextBlock q room.now (block_reader section.old push.old block.old error.old)
        (block_reader section.new push.new block.new error.new) result }
    ensures refused { order_shown section.old.magic_number ≡ None →
        RefusesNextBlock room.now (block_reader section.old push.old block.old error.old)
        (block_reader section.new push.new block.new error.new) result }
{
    let Some(held) = room.get(push.begin..push.end) else {
        return 10;
    };
    let mut left = PcapfileBytes { bytes: held };
    let status = pcapfile_take_block(alloc, section, &mut left, block, error);
    push.begin = push.end - left.bytes.len();
    status
}
