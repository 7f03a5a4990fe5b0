//! Copies of PcapNg captures from a reader to a writer.

ghost use Rattle.std.specs.Prelude.{◌≡◌, ◌≤◌, [], OnOk};
ghost use Rattle.pcap_items.specs.Copying.{NothingCopied};
ghost use Rattle.pcap_items.specs.Held.{held_bytes};
ghost use Rattle.pcap_items.specs.Filling.{Stated};
ghost use Rattle.pcap_ng.specs.Copies.{copied_of, BeginsNg, CopyNgRun, FollowsHeld};
ghost use Rattle.pcap_ng.specs.Frames.{frame_format};
ghost use Rattle.pcap_ng.specs.State.{order_at, state_in};
ghost use Rattle.pcap_ng.specs.StatedFrames.{KnowsFrame};

use crate::pcapng::framing::{FrameHead, FramesIn};
use crate::pcapng::state::InForce;
use crate::pcapng::stretch::put_shown;
use crate::pcapng::taking::{ended_early, opened};
use pcap_core::{Endianness, PcapError, ResultParsing};
use pcap_items::stream::{Ahead, AheadShown, Held, Sent, Tally, copy_items, fill_item, put};
use std::alloc::Global;
use std::io::{Read, Write};

/// The result of a copy of a PcapNg capture: the number of blocks, and why the copy ended.
#[derive(Debug, Drop)]
pub struct NgCopied {
    /// How many whole blocks were written after the first section header.
    pub blocks: u64,
    /// Why the copy ended before the end of the capture and before `most` blocks. None if it didn't.
    pub fault: Option<PcapError>,
    /// Whether a read failed.
    pub read_failed: bool,
    /// Whether a write failed.
    pub write_failed: bool,
}

impl NgCopied {
    // Returns the result of a copy that has this tally and ended with this fault, or none.
    pub(crate) fn of(tally: &Tally, fault: Option<PcapError>) -> NgCopied
        ensures { result ≡ copied_of tally.now fault }
    {
        NgCopied {
            blocks: tally.items,
            fault,
            read_failed: tally.read_failed,
            write_failed: tally.write_failed,
        }
    }
}

/// Copies a PcapNg capture byte by byte from a reader to a writer: its first section header, and then at most `most` of the
/// blocks after it. Each block is written before the next one is read. If there is no fault, exactly the copied bytes were taken
/// from the reader.
///
/// If the first block is refused, the fault is that of `PcapNgReader::new`, and nothing is written. If a later block is refused,
/// the fault is that of `PcapNgReader`; all blocks before it were written, and no more of it was taken than was missing. The
/// fault is `IoError` also if a write failed: the next block was taken then, and a beginning of it was written. It is
/// `OutOfMemory` if a block can't be held, or a section or interface that it puts in force can't be kept.
pub fn copy_pcapng<R: Read, W: Write>(
    alloc: Global,
    reader: &mut R,
    writer: &mut W,
    most: u64,
) -> NgCopied
    ensures most { result.blocks ≤ most }
    ensures run { CopyNgRun (R.remaining reader.old) (R.remaining reader.new) (W.contents writer.old) (W.contents writer.new) most result }
{
    let tally = &mut Tally::none();
    let held = &mut Held::new(alloc);
    let result = match copy_first(alloc, reader, writer, tally, held) {
        Ok(mut now) => copy_items(alloc, &Blocks, &mut now, reader, writer, most, tally, held),
        Err(e) => Err(e),
    };
    NgCopied::of(tally, result.err())
}

// Copies the first block, and returns what is in force after it.
pub(crate) fn copy_first<R: Read, W: Write>(
    alloc: Global,
    reader: &mut R,
    writer: &mut W,
    tally: &mut Tally,
    held: &mut Held,
) -> ResultParsing<InForce>
    requires new { NothingCopied tally.old }
    requires between { held_bytes held.old ≡ [] }
    ensures begins { BeginsNg (R.remaining reader.old) (R.remaining reader.new) (W.contents writer.old) (W.contents writer.new) tally.new result }
    ensures between { OnOk result (held_bytes held.new ≡ []) }
{
    let frames = FramesIn {
        order: Endianness::Big,
    };
    let Some(head) = fill_item(&frames, reader, &mut tally.read_failed, held)? else {
        return Err(ended_early());
    };
    let in_force = opened(alloc, head, held.as_slice())?;
    put(writer, &mut tally.write_failed, held.as_slice())?;
    held.clear();
    Ok(in_force)
}

// The blocks of a copy, which are written as they came.
#[derive(Drop)]
pub(crate) struct Blocks;

impl Ahead for Blocks {
    ghost use Rattle.std.specs.Prelude.{⊤};
    ghost use Rattle.pcap_items.specs.AsTheyCame.{as_they_came};
    ghost use Rattle.pcap_ng.specs.Blocks.{Item as BlockItem, block_format};
    ghost use Rattle.pcap_ng.specs.State.{State as BlockState, state_in};

    type Place = InForce;

    ghost State = { BlockState };

    ghost Value = { BlockItem };

    ghost stands = { λ blocks. ⊤ };

    ghost format = { λ blocks. block_format };

    ghost written = { λ blocks. as_they_came };

    ghost state = { state_in };

    fn copy_next<R: Read, W: Write>(
        &self,
        alloc: Global,
        place: &mut InForce,
        reader: &mut R,
        writer: &mut W,
        tally: &mut Tally,
        held: &mut Held,
    ) -> ResultParsing<bool> {
        let order = place.order();
        let frames = FramesIn { order };
        let Some(head) = fill_item(&frames, reader, &mut tally.read_failed, held)? else {
            return Ok(false);
        };
        follow_held(alloc, place, frames, head, held.as_slice())?;
        put(writer, &mut tally.write_failed, held.as_slice())?;
        held.clear();
        tally.items += 1;
        Ok(true)
    }
}

impl AheadShown for Blocks {
    fn put_shown<W: Write>(
        &self,
        place: &InForce,
        writer: &mut W,
        has_failed: &mut bool,
        shown: &[u8],
        most: u64,
    ) -> Sent {
        put_shown(writer, has_failed, place.order(), shown, most)
    }
}

// Puts in force the block that has this head and these bytes.
#[inline(always)]
fn follow_held(
    alloc: Global,
    in_force: &mut InForce,
    frames: FramesIn,
    head: FrameHead,
    held: &[u8],
) -> ResultParsing<()>
    requires order { frames.order ≡ order_at (state_in in_force.old) }
    requires stated { Stated (KnowsFrame frames.order) (frame_format.head frames.order) head held.now }
    ensures { FollowsHeld (state_in in_force.old) (state_in in_force.new) held.now result }
{
    let block = frames.block(head, held)?;
    in_force.follow(alloc, &block)
}
