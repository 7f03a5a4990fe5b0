//! Sorting the records of a capture.

ghost use Rattle.std.specs.Prelude.{◌≡◌, Option, List, ℕ};
ghost use Rattle.pcap_walk.specs.declared.walking.Ended.TheVariants.{AtEnd};
ghost use Rattle.pcapfile_sort.specs.Blocks.{HasSections, block_captures};
ghost use Rattle.pcapfile_sort.specs.Copying.{EndsSecond};
ghost use Rattle.pcapfile_sort.specs.Packets.{packet_captures};
ghost use Rattle.pcapfile_sort.specs.Reading.{PassesOnce, sorted_by};
ghost use Rattle.pcapfile_sort.specs.Sortable.{IsSortable};
ghost use Rattle.pcapfile_sort.specs.Sorting.{Sorts};
ghost use Rattle.pcapfile_sort.specs.declared.sorting.Sorted.TheVariants.{Whole};

use crate::again::ReadAgain;
use crate::blocks::{BlockEntries, BlockRecords, read_all_blocks};
use crate::collecting::{Entries, Unkept, read_entries};
use crate::copying::copy_all;
use crate::entry::{Entry, put_in_order};
use crate::packets::PacketRecords;
use crate::records::Records;
use pcap_core::PcapError;
use pcap_file::PcapNgReader;
use pcap_items::stream::put;
use pcap_walk::{Ended, Walked};
use pcapfile_cut::Opening;
use std::alloc::Global;
use std::io;
use std::io::{BufRead, Read, Write};

/// Why the first pass did not reach the end of the capture.
#[derive(Debug, Drop)]
pub struct Refusal {
    /// The number of bytes of the capture before the packet or block that can't be read.
    pub byte: u64,
    /// The error of `PcapReader`, `PcapNgReader` or `Block::parsed` there.
    pub error: PcapError,
    /// True if a read failed.
    pub read_failed: bool,
}

/// The outcome of a sort.
#[derive(Debug, Drop)]
pub enum Sorted {
    /// All packets were written in order of time.
    Whole,
    /// The capture's header or first block can't be read, or is malformed. Nothing was written.
    Unopened(PcapError),
    /// The capture is truncated or malformed behind that, or can't be read. Nothing was written.
    Refused(Refusal),
    /// The capture has 2^64 bytes or more, or 2^33 sections or more. Nothing was written.
    TooLong,
    /// Memory ran out.
    Memory,
    /// A packet or block can't be read again.
    Unread(io::Error),
    /// The bytes at the place of a packet are no packet of its time and length, or those at the place of a block are no block of its
    /// length.
    Changed,
    /// A write failed.
    Unwritten(PcapError),
}

/// The outcome of a sort of a PcapNg capture.
#[derive(Debug, Drop)]
pub struct SortedBlocks {
    /// The outcome.
    pub sorted: Sorted,
    /// How many sections the capture has, if it was read to its end.
    pub sections: u64,
}

// Writes the bytes before the first record, and the records of these entries in order of rank.
fn write_in_order<C: Records, S: ReadAgain, W: Write>(
    alloc: Global,
    records: &C,
    entries: &mut Vec<Entry>,
    again: &mut S,
    output: &mut W,
) -> Sorted
    ensures { EndsSecond C.format (C.opening records.now) (S.bytes again.old) entries.old.items
        (record { out = W.contents output.old; out_now = W.contents output.new; failed = S.has_failed again.new; sorted = result }) }
{
    match put_in_order(entries) {
        Ok(()) => {}
        Err(_) => return Sorted::Memory,
    }
    match put(output, &mut false, records.lead()) {
        Ok(()) => {}
        Err(error) => return Sorted::Unwritten(error),
    }
    match copy_all(alloc, records, entries.as_slice(), again, output) {
        Ok(()) => Sorted::Whole,
        Err(stop) => stop,
    }
}

// Returns the outcome of a sort for whose first pass an entry was not kept.
fn unkept(stop: Unkept) -> Sorted
    ensures { result ≡ sorted_by stop }
{
    match stop {
        Unkept::Memory => Sorted::Memory,
        Unkept::TooLong => Sorted::TooLong,
    }
}

// Ends a sort after its first pass. Its parameters are those of a sort, with what the first pass found instead of the input.
fn end_sort<C: Records, S: ReadAgain, W: Write>(
    alloc: Global,
    ended: Ended<Unkept>,
    entries: &mut Entries,
    read_failed: bool,
    records: &C,
    again: &mut S,
    output: &mut W,
) -> Sorted
    requires lawful { IsSortable C.format }
    ensures sorts { (capture : Option (List ℕ)) → PassesOnce C.format (C.opening records.now) capture read_failed entries.old ended
        → Sorts C.format capture (S.bytes again.old) (W.contents output.old) (W.contents output.new) (S.has_failed again.new) result }
    ensures whole { result ≡ Whole → ended ≡ AtEnd }
{
    match ended {
        Ended::AtEnd => write_in_order(alloc, records, &mut entries.list, again, output),
        Ended::AtMost => Sorted::TooLong,
        Ended::Stopped(stop) => unkept(stop),
        Ended::Refused(error) => Sorted::Refused(Refusal {
            byte: entries.place,
            error,
            read_failed,
        }),
    }
}

/// Writes a classic capture with its packets in order of time. Packets of equal times keep their order. The header and each packet
/// record keep their bytes.
///
/// The function reads the input to its end, and keeps an entry of 32 bytes for each packet. Then it reads each packet again from `again`,
/// which is the same capture, and writes it. It checks that this packet has the time and the length that it had before. If the capture is
/// truncated or malformed, it returns the error of `PcapReader`, and writes nothing.
pub fn sort_capture<R: BufRead + Drop, S: ReadAgain, W: Write>(
    alloc: Global,
    mut input: R,
    again: &mut S,
    output: &mut W,
) -> Sorted
    ensures { Sorts packet_captures (R.remaining input) (S.bytes again.old) (W.contents output.old) (W.contents output.new) (S.has_failed again.new) result }
{
    let opening = match Opening::read(&mut input, &mut false) {
        Ok(opening) => opening,
        Err(error) => return Sorted::Unopened(error),
    };
    let mut entries = Entries::new(alloc, opening.bytes().len() as u64);
    let mut walked = Walked {
        items: 0,
        read_failed: false,
    };
    let header = opening.header();
    let ended = read_entries(alloc, header, &mut input, &mut walked, &mut entries);
    let records = PacketRecords::after(&opening);
    let read_failed = walked.read_failed;
    end_sort(
        alloc,
        ended,
        &mut entries,
        read_failed,
        &records,
        again,
        output,
    )
}

/// Writes a PcapNg capture with the packets of each section in order of time. For each section in turn, the output has the section
/// header and all blocks that hold no packet, in their order, and then the blocks with packets in order of time. A packet without a
/// time goes before each packet that has one. Packets of equal times keep their order. Each block keeps its bytes.
///
/// The time of a packet is that of its interface's clock; the interface must be described before the packet. The function reads the
/// input to its end, and keeps an entry of 32 bytes for each block. Then it reads each block again from `again`, which is the same
/// capture, and writes it. It checks that these bytes are one block, of the length that it had before. If the capture is truncated, or
/// the body of a block is malformed, it returns the error of `PcapNgReader` or `Block::parsed`, and writes nothing.
pub fn sort_blocks<R: Read + Drop, S: ReadAgain, W: Write>(
    alloc: Global,
    input: R,
    again: &mut S,
    output: &mut W,
) -> SortedBlocks
    ensures sorts { Sorts block_captures (R.remaining input) (S.bytes again.old) (W.contents output.old) (W.contents output.new) (S.has_failed again.new) result.sorted }
    ensures sections { result.sorted ≡ Whole → HasSections (R.remaining input) result.sections }
{
    let mut reader = match PcapNgReader::new(alloc, input) {
        Ok(reader) => reader,
        Err(error) => {
            return SortedBlocks {
                sorted: Sorted::Unopened(error),
                sections: 0,
            };
        }
    };
    let mut kept = BlockEntries {
        entries: Entries::new(alloc, 0),
        sections: 0,
    };
    let ended = read_all_blocks(alloc, &mut reader, &mut kept);
    let read_failed = reader.failed();
    let BlockEntries {
        mut entries,
        sections,
    } = kept;
    let records = BlockRecords;
    let sorted = end_sort(
        alloc,
        ended,
        &mut entries,
        read_failed,
        &records,
        again,
        output,
    );
    SortedBlocks { sorted, sections }
}
