//! Copies of PcapNg captures from a reader's own buffer.

ghost use Rattle.std.specs.Prelude.{◌≤◌};
ghost use Rattle.pcap_ng.specs.Copies.{CopyNgRun};

use crate::pcapng::copying::{Blocks, NgCopied, copy_first};
use pcap_items::stream::{Held, Tally, copy_buffers};
use std::alloc::Global;
use std::io::{BufRead, Write};

/// Copies a PcapNg capture as `copy_pcapng` does, from a reader that shows its buffer. Whole blocks in the buffer are written
/// from there without a copy, all of them at once up to a section header or an interface description. These two kinds, and a
/// block that ends outside the buffer, are held in memory, as `copy_pcapng` holds all blocks. A reader that shows no byte is at
/// its end. Bytes in its buffer that no block took stay there.
///
/// Its faults are those of `copy_pcapng`.
pub fn copy_pcapng_buffered<R: BufRead, W: Write>(
    alloc: Global,
    reader: &mut R,
    writer: &mut W,
    most: u64,
) -> NgCopied
    ensures most { result.blocks ≤ most }
    ensures run { CopyNgRun (R.remaining reader.old) (R.remaining reader.new) (W.contents writer.old) (W.contents writer.new) most result }
{
    let tally = &mut Tally::none();
    let held = &mut Held::new(alloc);
    let result = match copy_first(alloc, reader, writer, tally, held) {
        Ok(mut now) => copy_buffers(alloc, &Blocks, &mut now, reader, writer, most, tally, held),
        Err(e) => Err(e),
    };
    NgCopied::of(tally, result.err())
}
