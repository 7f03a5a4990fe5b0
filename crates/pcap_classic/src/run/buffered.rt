//! Copies of captures from a reader's own buffer.

ghost use Rattle.std.specs.Prelude.{◌≤◌, IfSome};
ghost use Rattle.pcap_classic.specs.Copies.{CopyRun, CopyFront};

use crate::run::copy::{begin_copy, end_copy};
use crate::run::{Copied, Under};
use pcap_items::stream::{Held, Tally, copy_buffers};
use std::alloc::Global;
use std::io::{BufRead, Write};

/// Copies a capture as `copy_pcap` does, from a reader that shows its buffer. Packets that are whole in the buffer are
/// written from there without a copy, and all at once if the magic number stays the same. A packet that ends outside of the
/// buffer is held in memory, as `copy_pcap` holds all packets. A reader that shows no byte is at its end. Bytes that no
/// packet took stay in the reader's buffer.
///
/// It fails as `copy_pcap` does.
pub fn copy_buffered<R: BufRead, W: Write>(
    alloc: Global,
    reader: &mut R,
    writer: &mut W,
    under: Under,
    most: u64,
) -> Copied
    ensures most { result.packets ≤ most }
    ensures run { CopyRun under (R.remaining reader.old) (R.remaining reader.new) (W.contents writer.old) (W.contents writer.new) most result }
    ensures front { IfSome (R.remaining reader.old) (λ bytes. CopyFront under bytes (R.remaining reader.new)
        (W.contents writer.old) (W.contents writer.new) most result) }
{
    let tally = &mut Tally::none();
    let held = &mut Held::new(alloc);
    let result = match begin_copy(reader, writer, under, tally) {
        Ok(packets) => copy_buffers(alloc, &packets, &mut (), reader, writer, most, tally, held),
        Err(e) => Err(e),
    };
    end_copy(tally, result.err())
}
