//! Records of name resolution blocks read leniently.

ghost use Rattle.std.specs.Prelude.{IfOk, IfErr, MatchOption};
ghost use Rattle.pcap_core.specs.Answer.{Refuses};
ghost use Rattle.pcap_options.specs.Record.{RecordFault, RecordMayGrow};
ghost use Rattle.pcap_tolerant_blocks.specs.Flaws.{fault_of};
ghost use Rattle.pcap_tolerant_blocks.specs.NamesAsIs.{NoExtent, RawText, IsFound, FoundIsBorrowed};

use crate::flaws::{Broken, Flaw};
use byteorder::ByteOrder;
use pcap_blocks::{Record, UnknownRecord};
use pcap_core::fields::{split_padded, split_u16};
use pcap_core::{CowBytes, PcapError};
use std::alloc::{AllocError, Global};

// The result of lenient reading where a record of names should begin.
#[derive(Drop)]
pub(crate) enum RecordAsIs<'a> {
    // A record, the flaw of its value, and what follows it.
    Kept(Record<'a>, Option<Flaw>, &'a [u8]),
    // The end of the records, its flaw, and what follows it.
    End(Option<Flaw>, &'a [u8]),
    // No record: there is no room for one, or for the bytes that it states.
    Cut(Flaw),
}

// Splits off the record at the front of a slice, whatever its value is, as a record of an unknown type with borrowed bytes, and
// returns it with what follows its padding. Returns None if there is no room for it.
fn split_record<'a, B: ByteOrder>(slice: &'a [u8]) -> Option<(UnknownRecord<'a>, &'a [u8])>
    ensures { MatchOption result (NoExtent B.number_of slice.now) (λ x. RawText B.number_of x.0 slice.now x.1.now) }
{
    if slice.len() < 4 {
        return None;
    }
    let (type_, rest) = split_u16::<B>(slice);
    let (len, rest) = split_u16::<B>(rest);
    let Some((value, rest)) = split_padded(rest, len as usize) else {
        return None;
    };
    let record = UnknownRecord {
        type_,
        length: len,
        value: CowBytes::Borrowed(value),
    };
    Some((record, rest))
}

// Returns the fault of the record at the front of a slice, by the error of strict reading.
fn broken_by<B: ByteOrder>(slice: &[u8], error: PcapError) -> Result<Broken, AllocError>
    requires { Refuses (RecordMayGrow B.number_of slice.now) (λ _. ⊥) (RecordFault B.number_of slice.now) error }
    ensures read { IfOk result (λ broken. RecordFault B.number_of slice.now (fault_of broken)) }
    ensures memory { IfErr result (λ _. RecordMayGrow B.number_of slice.now) }
{
    if let Some(rule) = error.rule() {
        return Ok(Broken::Rule(rule));
    }
    match error {
        PcapError::OutOfMemory(e) => Err(e),
        PcapError::Utf8Error(_e) => Ok(Broken::NotUtf8),
        _ => Ok(Broken::TooShort),
    }
}

// Reads the record or the end at the front of a slice leniently, or returns that there is none.
pub(crate) fn record_as_is<'a, B: ByteOrder>(
    alloc: Global,
    slice: &'a [u8],
) -> Result<RecordAsIs<'a>, AllocError>
    ensures read { IfOk result (IsFound B.number_of slice.now) }
    ensures memory { IfErr result (λ _. RecordMayGrow B.number_of slice.now) }
    ensures borrowed { IfOk result FoundIsBorrowed }
{
    let broken = match Record::from_slice::<B>(alloc, slice) {
        Ok((after, record)) => {
            return Ok(match record {
                Record::End => RecordAsIs::End(None, after),
                record => RecordAsIs::Kept(record, None, after),
            });
        }
        Err(error) => broken_by::<B>(slice, error)?,
    };
    let flaw = Flaw { code: None, broken };
    let Some((record, after)) = split_record::<B>(slice) else {
        return Ok(RecordAsIs::Cut(flaw));
    };
    if record.type_ == 0 {
        return Ok(RecordAsIs::End(Some(flaw), after));
    }
    Ok(RecordAsIs::Kept(Record::Unknown(record), Some(flaw), after))
}
