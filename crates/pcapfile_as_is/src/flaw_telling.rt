//! Reading blocks leniently from a stream, and writing a line for each of their flaws.

ghost use Rattle.std.specs.Prelude.{◌≡◌, ◌<◌, ◌^◌, false, true, IfOk, IfErr, IfNone, IfSome};
ghost use Rattle.pcap_tolerant_captures.specs.Outlines.{known_order};
ghost use Rattle.pcap_tolerant_captures.specs.ReaderAsIs.{state_of, stream_of, has_failed, is_done};
ghost use Rattle.pcap_tolerant_captures.specs.State.{State};
ghost use Rattle.pcapfile_as_is.specs.FlawTelling.{TellsFlaws};
ghost use Rattle.pcapfile_as_is.specs.Texts.{progress};

use crate::block_flaws::put_block;
use crate::counted::{Counted, Spot};
use pcap_core::PcapError;
use pcap_program::Exit;
use pcap_tolerant_captures::PcapNgReaderAsIs;
use std::alloc::Global;
use std::io::{Read, Write};

/// Writes a line for each flaw of each block of a reader, up to `most` blocks, counts the blocks, and returns the error of the next block,
/// if any. The line has the prefix, the block's number and offset, the rule's number and message, and the code of the option with the flaw,
/// if any. Only a section or an interface has flaws, since the body of any other block isn't read.
///
/// The lines are those of `next_header`'s flaws, but neither they nor the options need a list: memory grows with the longest block alone.
///
/// Fails with `Memory` if there is no memory for the place of a block, and with `Io` if the output fails or there is no memory for a line:
/// the block whose lines it could not write is consumed and not counted, and the reader goes on after it.
pub fn tell_flaws<T: Read + Drop, W: Write>(
    alloc: Global,
    prefix: &str,
    reader: &mut PcapNgReaderAsIs<T>,
    output: &mut W,
    most: u64,
    counted: &mut Counted,
) -> Result<Option<PcapError>, Exit>
    requires ready { is_done reader.old ≡ false }
    requires unfailed { has_failed reader.old ≡ false }
    requires items { counted.old.items < 2 ^ 64 }
    requires flawed { counted.old.flawed < 2 ^ 64 }
    requires bytes { counted.old.bytes < 2 ^ 64 }
    ensures ready { IfOk result (λ fault. IfNone fault ((is_done reader.new ≡ false) × (has_failed reader.new ≡ false))) }
    ensures refused { IfOk result (λ fault. IfSome fault (λ error. is_done reader.new ≡ true)) }
    ensures readable { IfErr result (λ exit. (is_done reader.new ≡ false) × (has_failed reader.new ≡ false)) }
    ensures told { (q : State) → known_order q ≡ known_order (state_of reader.old) →
        TellsFlaws prefix.now (progress q (T.remaining (stream_of reader.old)) (W.contents output.old) counted.old)
        (progress (state_of reader.new) (T.remaining (stream_of reader.new)) (W.contents output.new) counted.new)
        (has_failed reader.new) most result }
{
    for turn in 0..most {
        match reader.next_outline() {
            None => return Ok(None),
            Some(Err(error)) => return Ok(Some(error)),
            Some(Ok(header)) => {
                let number = counted.items.saturating_add(1);
                let place = counted.bytes;
                let at = Spot { number, place };
                let told = put_block(alloc, output, prefix, at, header, reader.body())?;
                counted.add_item(u64::from(header.initial_len), told);
            }
        }
    }
    Ok(None)
}
