//! Functions that take blocks from a stream, given the parts of a reader.

ghost use Rattle.std.specs.Prelude.{◌≡◌, false, [], IfOk, IfErr, IfSome, OnOk, OnErr};
ghost use Rattle.pcap_core.specs.Bytes.{IsOwned};
ghost use Rattle.pcap_core.specs.declared.common.Endianness.TheVariants.{Big};
ghost use Rattle.pcap_core.specs.Errors.{IsIo};
ghost use Rattle.pcap_items.specs.Filling.{Stated};
ghost use Rattle.pcap_items.specs.Held.{held_bytes};
ghost use Rattle.pcap_items.specs.Reading.{Pulls, TakesAsked};
ghost use Rattle.pcap_ng.specs.Blocks.{item_of, block_format};
ghost use Rattle.pcap_ng.specs.Opening.{OpeningSays, OpensHeld, RefusesOpening};
ghost use Rattle.pcap_ng.specs.Frames.{frame_format};
ghost use Rattle.pcap_items.specs.Lent.{HoldsText, TakesText};
ghost use Rattle.pcap_ng.specs.Lent.{held_item};
ghost use Rattle.pcap_ng.specs.StatedFrames.{KnowsFrame};
ghost use Rattle.pcap_ng.specs.State.{state_in, StaysUnlessTaken};

use crate::pcapng::block::Block;
use crate::pcapng::block_header::BlockHeader;
use crate::pcapng::framing::{FrameHead, FramesIn};
use crate::pcapng::state::InForce;
use pcap_core::{Endianness, PcapError, ResultParsing};
use pcap_items::stream::{Held, fill_item};
use std::alloc::Global;
use std::io;
use std::io::{ErrorKind, Read};

// Takes the next block. Nothing is held before the call, nor after an `Ok`. The section and interfaces in force change only if a
// block comes.
pub(crate) fn pull<T: Read>(
    alloc: Global,
    in_force: &mut InForce,
    stream: &mut T,
    has_failed: &mut bool,
    held: &mut Held,
) -> ResultParsing<Option<Block<'static>>>
    requires between { held_bytes held.old ≡ [] }
    requires unfailed { has_failed.old ≡ false }
    ensures pulls { Pulls (block_format.says (state_in in_force.old))
        (item_of (state_in in_force.new)) (T.remaining stream.old) (T.remaining stream.new) has_failed.new result }
    ensures stays { StaysUnlessTaken (state_in in_force.old) (state_in in_force.new) result }
    ensures owned { IfOk result (λ found. IfSome found (λ block. IsOwned block.body)) }
    ensures between { OnOk result (held_bytes held.new ≡ []) }
{
    let order = in_force.order();
    let frames = FramesIn { order };
    let Some(head) = fill_item(&frames, stream, has_failed, held)? else {
        return Ok(None);
    };
    let block = frames.block(head, held.as_slice())?;
    let own = block.into_owned(alloc)?;
    in_force.follow(alloc, &own)?;
    held.clear();
    Ok(Some(own))
}

// Holds the text of the next block. Nothing is held before the call, nor after it if no block comes. The section and interfaces
// in force change only if a block comes.
pub(crate) fn hold<T: Read>(
    alloc: Global,
    in_force: &mut InForce,
    stream: &mut T,
    has_failed: &mut bool,
    held: &mut Held,
) -> ResultParsing<Option<BlockHeader>>
    requires between { held_bytes held.old ≡ [] }
    requires unfailed { has_failed.old ≡ false }
    ensures pulls { Pulls (block_format.says (state_in in_force.old))
        (held_item (state_in in_force.new) (held_bytes held.new)) (T.remaining stream.old) (T.remaining stream.new) has_failed.new result }
    ensures stays { StaysUnlessTaken (state_in in_force.old) (state_in in_force.new) result }
    ensures text { HoldsText (block_format.says (state_in in_force.old))
        (held_item (state_in in_force.new) (held_bytes held.new)) (T.remaining stream.old) (T.remaining stream.new) (held_bytes held.new) result }
{
    let order = in_force.order();
    let frames = FramesIn { order };
    let Some(head) = fill_item(&frames, stream, has_failed, held)? else {
        return Ok(None);
    };
    let block = frames.block(head, held.as_slice())?;
    let header = BlockHeader::of(&block);
    in_force.follow(alloc, &block)?;
    Ok(Some(header))
}

// Returns what is in force after the first block, which has this head and these bytes.
pub(crate) fn opened(alloc: Global, head: FrameHead, bytes: &[u8]) -> ResultParsing<InForce>
    requires { Stated (KnowsFrame Big) (frame_format.head Big) head bytes.now }
    ensures { OpensHeld bytes.now result }
{
    let frames = FramesIn {
        order: Endianness::Big,
    };
    let block = frames.block(head, bytes)?;
    InForce::after(alloc, &block)
}

// Holds the text of the first block. Nothing is held before the call.
pub(crate) fn open<T: Read>(
    alloc: Global,
    stream: &mut T,
    has_failed: &mut bool,
    held: &mut Held,
) -> ResultParsing<InForce>
    requires between { held_bytes held.old ≡ [] }
    requires unfailed { has_failed.old ≡ false }
    ensures takes { IfOk result
        (λ in_force. TakesText OpeningSays (T.remaining stream.old) (T.remaining stream.new) (held_bytes held.new) (state_in in_force)) }
    ensures refused { IfErr result (RefusesOpening (T.remaining stream.old)) }
    ensures asked { OnErr result (TakesAsked OpeningSays (T.remaining stream.old) (T.remaining stream.new)) }
    ensures unfailed { OnOk result (has_failed.new ≡ false) }
{
    let frames = FramesIn {
        order: Endianness::Big,
    };
    let Some(head) = fill_item(&frames, stream, has_failed, held)? else {
        return Err(ended_early());
    };
    let in_force = opened(alloc, head, held.as_slice())?;
    Ok(in_force)
}

pub(crate) fn ended_early() -> PcapError
    ensures { IsIo result }
{
    PcapError::IoError(io::Error::new(ErrorKind::UnexpectedEof, "the stream ended early"))
}
