//! Reading packets leniently from a stream, and writing a text for each.

ghost use Rattle.std.specs.Prelude.{◌≡◌, ◌<◌, ◌^◌, false, true, MatchResult, IfOk, IfErr, IfNone, IfSome};
ghost use Rattle.pcap_classic.specs.Magic.{resolution_of};
ghost use Rattle.pcap_tolerant.specs.ReaderAsIs.{stream_of, header_read, limit_of, has_failed, is_done};
ghost use Rattle.pcap_tolerant.specs.Run.{as_is_under};
ghost use Rattle.pcapfile_as_is.specs.Counts.{has_flaw, size_of};
ghost use Rattle.pcapfile_as_is.specs.Texts.{TellsBy, TellsItems, TellsTorn, progress, told_by};

use crate::counted::{Counted, Spot};
use crate::teller::Teller;
use pcap_core::PcapError;
use pcap_program::Exit;
use pcap_tolerant::ReaderAsIs;
use std::alloc::Global;
use std::io::{Read, Write};

/// Writes the text of each packet of a reader, up to `most`, counts it, and returns the error of the next packet, if any. Fails with the
/// errors of the teller: the packet that it could not write is consumed and not counted, and the reader goes on after it.
pub fn tell_packets<P: Teller, T: Read + Drop, W: Write>(
    alloc: Global,
    teller: &mut P,
    reader: &mut ReaderAsIs<T>,
    output: &mut W,
    most: u64,
    counted: &mut Counted,
) -> Result<Option<PcapError>, Exit>
    requires ready { is_done reader.old ≡ false }
    requires unfailed { has_failed reader.old ≡ false }
    requires items { counted.old.items < 2 ^ 64 }
    requires flawed { counted.old.flawed < 2 ^ 64 }
    requires bytes { counted.old.bytes < 2 ^ 64 }
    ensures same { P.setting teller.new ≡ P.setting teller.old }
    ensures header { header_read reader.new ≡ header_read reader.old }
    ensures limit { limit_of reader.new ≡ limit_of reader.old }
    ensures ready { IfOk result (λ fault. IfNone fault ((is_done reader.new ≡ false) × (has_failed reader.new ≡ false))) }
    ensures refused { IfOk result (λ fault. IfSome fault (λ error. is_done reader.new ≡ true)) }
    ensures readable { IfErr result (λ exit. (is_done reader.new ≡ false) × (has_failed reader.new ≡ false)) }
    ensures told { let f = as_is_under (limit_of reader.old) (header_read reader.old) in
        let tells = TellsBy has_flaw (P.text (P.setting teller.old) (resolution_of (header_read reader.old).magic_number)) in
        MatchResult result
        (λ fault. TellsItems (told_by f size_of tells)
        (progress tt (T.remaining (stream_of reader.old)) (W.contents output.old) counted.old)
        (progress tt (T.remaining (stream_of reader.new)) (W.contents output.new) counted.new)
        (has_failed reader.new) most fault)
        (λ exit. TellsTorn (told_by f size_of tells)
        (progress tt (T.remaining (stream_of reader.old)) (W.contents output.old) counted.old)
        (progress tt (T.remaining (stream_of reader.new)) (W.contents output.new) counted.new) exit) }
{
    let ts_resolution = reader.ts_resolution();
    for turn in 0..most {
        match reader.next_header() {
            None => return Ok(None),
            Some(Err(error)) => return Ok(Some(error)),
            Some(Ok(head)) => {
                let packet = reader.packet(head);
                let number = counted.items.saturating_add(1);
                let place = counted.bytes;
                teller.put(
                    alloc,
                    output,
                    ts_resolution,
                    Spot { number, place },
                    &packet,
                )?;
                counted.add(&head);
            }
        }
    }
    Ok(None)
}
