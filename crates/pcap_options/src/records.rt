//! Lists of name records.

ghost use Rattle.std.specs.Prelude.{map, All, IfOk};
ghost use Rattle.pcap_options.specs.Refusal.{FindsWhere};
ghost use Rattle.pcap_options.specs.Record.{name_record_of, RecordIsBorrowed};
ghost use Rattle.pcap_options.specs.Records.{RecordsSay, RecordsMayGrow};

use crate::record::Record;
use crate::refusal::Refusal;
use byteorder::ByteOrder;
use std::alloc::Global;

/// Reads the records up to the end record, and returns the bytes after it and the records before it.
#[inline(never)]
pub fn records_from_slice<'a, B: ByteOrder>(
    alloc: Global,
    slice: &'a [u8],
) -> Result<(&'a [u8], Vec<Record<'a>>), Refusal>
    ensures tells { FindsWhere (RecordsMayGrow B.number_of slice.now) (RecordsSay B.number_of slice.now) (λ records. map name_record_of records.items) result }
    ensures borrowed { IfOk result (λ x. All RecordIsBorrowed x.1.items) }
{
    let mut records = Vec::new(alloc);
    let mut rest = slice;
    loop {
        let (after, record) = Record::read::<B>(alloc, rest)?;
        rest = after;
        match record {
            Record::End => return Ok((rest, records)),
            record => records.push(record)?,
        }
    }
}
