//! The second pass over a capture, which reads the records again at the places of their entries.

ghost use Rattle.std.specs.Prelude.{◌≡◌};
ghost use Rattle.pcapfile_sort.specs.Copying.{CopiesAll, CopiesOne};

use crate::again::ReadAgain;
use crate::entry::Entry;
use crate::records::Records;
use crate::sorting::Sorted;
use pcap_items::stream::put;
use std::alloc::Global;
use std::io::Write;

// Reads the record of an entry again, and writes it. The room is for the bytes of one record.
fn copy_record<C: Records, S: ReadAgain, W: Write>(
    records: &C,
    entry: Entry,
    again: &mut S,
    output: &mut W,
    room: &mut Vec<u8>,
) -> Result<(), Sorted>
    ensures copies { CopiesOne (C.format.Is (C.opening records.now)) (S.bytes again.old) entry (S.has_failed again.new) (W.contents output.old) (W.contents output.new) result }
    ensures same { S.bytes again.new ≡ S.bytes again.old }
{
    match room.resize(entry.length, 0) {
        Ok(()) => {}
        Err(_) => return Err(Sorted::Memory),
    }
    match again.read_at(entry.place, room.as_mut_slice()) {
        Ok(()) => {}
        Err(error) => return Err(Sorted::Unread(error)),
    }
    if !records.is_record(entry.rank, room.as_slice()) {
        return Err(Sorted::Changed);
    }
    match put(output, &mut false, room.as_slice()) {
        Ok(()) => Ok(()),
        Err(error) => Err(Sorted::Unwritten(error)),
    }
}

/// Reads the records of these entries again, and writes them in this order.
pub(crate) fn copy_all<C: Records, S: ReadAgain, W: Write>(
    alloc: Global,
    records: &C,
    entries: &[Entry],
    again: &mut S,
    output: &mut W,
) -> Result<(), Sorted>
    ensures { CopiesAll (C.format.Is (C.opening records.now)) (S.bytes again.old) entries.now (S.has_failed again.new) (W.contents output.old) (W.contents output.new) result }
{
    let mut room = Vec::new(alloc);
    for entry in entries {
        match copy_record(records, *entry, again, output, &mut room) {
            Ok(()) => {}
            Err(stop) => return Err(stop),
        }
    }
    Ok(())
}
