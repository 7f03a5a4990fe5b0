//! Reading blocks leniently from a stream, and writing a text for each.

ghost use Rattle.std.specs.Prelude.{◌≡◌, ◌<◌, ◌^◌, false, true, MatchResult, IfOk, IfErr, IfNone, IfSome};
ghost use Rattle.pcap_tolerant_captures.specs.Blocks.{as_is_format};
ghost use Rattle.pcap_tolerant_captures.specs.ReaderAsIs.{state_of, stream_of, has_failed, is_done};
ghost use Rattle.pcapfile_as_is.specs.Counts.{block_size};
ghost use Rattle.pcapfile_as_is.specs.Texts.{TellsItems, TellsTorn, progress, told_by};

use crate::block_teller::BlockTeller;
use crate::counted::{Counted, Spot};
use pcap_core::PcapError;
use pcap_program::Exit;
use pcap_tolerant_captures::PcapNgReaderAsIs;
use std::alloc::Global;
use std::io::{Read, Write};

/// Writes the text of each block of a reader, up to `most`, counts it, and returns the error of the next block, if any. Fails with the
/// errors of the teller: the block that it could not write is consumed and not counted, and the reader goes on after it.
pub fn tell_blocks<P: BlockTeller, T: Read + Drop, W: Write>(
    alloc: Global,
    teller: &mut P,
    reader: &mut PcapNgReaderAsIs<T>,
    output: &mut W,
    most: u64,
    counted: &mut Counted,
) -> Result<Option<PcapError>, Exit>
    requires ready { is_done reader.old ≡ false }
    requires unfailed { has_failed reader.old ≡ false }
    requires items { counted.old.items < 2 ^ 64 }
    requires flawed { counted.old.flawed < 2 ^ 64 }
    requires bytes { counted.old.bytes < 2 ^ 64 }
    ensures same { P.setting teller.new ≡ P.setting teller.old }
    ensures ready { IfOk result (λ fault. IfNone fault ((is_done reader.new ≡ false) × (has_failed reader.new ≡ false))) }
    ensures refused { IfOk result (λ fault. IfSome fault (λ error. is_done reader.new ≡ true)) }
    ensures readable { IfErr result (λ exit. (is_done reader.new ≡ false) × (has_failed reader.new ≡ false)) }
    ensures told { let tells = P.is_told (P.setting teller.old) in
        MatchResult result
        (λ fault. TellsItems (told_by as_is_format block_size tells)
        (progress (state_of reader.old) (T.remaining (stream_of reader.old)) (W.contents output.old) counted.old)
        (progress (state_of reader.new) (T.remaining (stream_of reader.new)) (W.contents output.new) counted.new)
        (has_failed reader.new) most fault)
        (λ exit. TellsTorn (told_by as_is_format block_size tells)
        (progress (state_of reader.old) (T.remaining (stream_of reader.old)) (W.contents output.old) counted.old)
        (progress (state_of reader.new) (T.remaining (stream_of reader.new)) (W.contents output.new) counted.new) exit) }
{
    for turn in 0..most {
        match reader.next_header() {
            None => return Ok(None),
            Some(Err(error)) => return Ok(Some(error)),
            Some(Ok(lent)) => {
                let number = counted.items.saturating_add(1);
                let place = counted.bytes;
                let told = teller.put(alloc, output, Spot { number, place }, reader, &lent)?;
                counted.add_item(u64::from(lent.header.initial_len), told);
            }
        }
    }
    Ok(None)
}
