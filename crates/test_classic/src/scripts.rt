//! The results of readers, runs, copies and writers, as the rows name them.

use crate::names::{
    are_contents, is_failure, name_of, name_of_fault, name_of_item, name_of_outcome, name_of_packet,
};
use pcap_classic::pcap::{Packet, PcapHeader, PcapReader, PcapWriter};
use pcap_classic::run::{Copied, PcapRead};
use pcap_classic::{PcapError, ResultParsing};
use std::alloc::Global;
use std::io::Read;
use test_support::readers::Halting;
use test_support::writers::Narrow;

/// Returns the capture's packet with these bytes.
pub fn packet(bytes: &[u8]) -> Packet<'_> {
    Packet::new(0x4fa11b29, 152_630_000, &bytes[..bytes.len().min(98)], 98)
}

/// Returns a reader of a stream of these bytes, at most `step` in a read.
pub fn reader(alloc: Global, bytes: &[u8], step: usize) -> ResultParsing<PcapReader<Halting>> {
    PcapReader::new(alloc, Halting::new(alloc, bytes, step)?)
}

// Returns whether a row says that there is no reader, run or writer because of this error.
fn is_refused(error: &PcapError, told: &str) -> bool {
    told.strip_prefix("refused ") == Some(name_of(error))
}

/// Returns whether a reader of a stream has the header of the captures, and gives these items, and then nothing.
pub fn reads<T: Read + Drop>(alloc: Global, stream: T, items: &str) -> bool {
    match PcapReader::new(alloc, stream) {
        Ok(mut reader) => reader.header == PcapHeader::default() && gives(&mut reader, items),
        Err(error) => is_refused(&error, items),
    }
}

/// Returns whether a reader gives these items, and then nothing. It must report a failed read, but no early end.
pub fn gives<T: Read + Drop>(reader: &mut PcapReader<T>, items: &str) -> bool {
    let mut is_so = true;
    let mut has_failed = false;
    for item in items.split_whitespace() {
        has_failed |= is_failure(item);
        is_so &= acts(reader, item) && reader.failed() == has_failed;
    }
    for _turn in 0..4 {
        is_so &= acts(reader, "end");
    }
    is_so && reader.failed() == has_failed
}

// Returns whether the reader gives this item, or does what the word says.
fn acts<T: Read + Drop>(reader: &mut PcapReader<T>, item: &str) -> bool {
    match item.split_once('_') {
        // the reader lends the item
        Some(("lent", item)) => is_lent(reader, item),
        // this magic number is put into its header
        Some(("put", "wrong")) => is_put(reader, 0),
        Some(("put", "fine")) => is_put(reader, 0xa1b23c4d),
        _ => is_next(reader, item),
    }
}

fn is_put<T: Read + Drop>(reader: &mut PcapReader<T>, magic: u32) -> bool {
    reader.header.magic_number = magic;
    true
}

// Returns whether this item comes next, and the header stays.
fn is_next<T: Read + Drop>(reader: &mut PcapReader<T>, item: &str) -> bool {
    let magic = reader.header.magic_number;
    name_of_item(&reader.next()) == item && reader.header.magic_number == magic
}

// Returns whether this item is lent next. No bytes are lent where there is no packet, or before the first one.
fn is_lent<T: Read + Drop>(reader: &mut PcapReader<T>, item: &str) -> bool {
    if item == "nothing" {
        return reader.data().is_empty();
    }
    match reader.next_header() {
        Some(Ok(header)) => {
            item == "packet"
                && are_contents(reader.data())
                && name_of_packet(&reader.packet(header)) == "lent"
        }
        Some(Err(error)) => item == name_of(&error) && reader.data().is_empty(),
        None => item == "end" && reader.data().is_empty(),
    }
}

/// Returns whether a run has these packets, and this error or `end`.
pub fn is_run(read: &ResultParsing<PcapRead>, items: &str) -> bool {
    match read {
        Ok(read) => has_items(read, items),
        Err(error) => is_refused(error, items),
    }
}

fn has_items(read: &PcapRead, items: &str) -> bool {
    let fault = name_of_fault(&read.fault);
    let mut is_so = read.failed == is_failure(fault);
    let mut words = items.split_whitespace();
    for packet in &read.packets {
        is_so &= words.next() == Some(name_of_packet(packet));
    }
    is_so && words.next() == Some(fault) && words.next().is_none()
}

// Returns which call failed.
fn failed(copied: &Copied) -> &'static str {
    match (copied.read_failed, copied.write_failed) {
        (false, false) => "",
        (true, false) => "read_failed",
        (false, true) => "write_failed",
        (true, true) => "both_failed",
    }
}

/// Returns whether a copy wrote this many packets, and ended for this reason, after this failed call.
pub fn is_copied(copied: &Copied, told: &str) -> bool {
    let mut words = told.split_whitespace();
    let packets = words.next().unwrap_or("").parse::<u64>();
    matches!(packets, Ok(packets) if packets == copied.packets)
        && words.next() == Some(name_of_fault(&copied.fault))
        && words.next().unwrap_or("") == failed(copied)
        && words.next().is_none()
}

/// Writes a header and this packet until a write fails, and returns whether that fails for this reason, and each later call fails as
/// `WriterFailed`.
pub fn writes(header: PcapHeader, output: &mut Narrow, bytes: &[u8], told: &str) -> bool {
    match PcapWriter::with_header(header, output) {
        Ok(mut writer) => fails_once(&mut writer, &packet(bytes), told),
        Err(error) => is_refused(&error, told),
    }
}

fn fails_once(writer: &mut PcapWriter<&mut Narrow>, packet: &Packet<'_>, told: &str) -> bool {
    let began = !writer.failed();
    let first = name_of_outcome(&writer.write_packet(packet));
    let second = name_of_outcome(&writer.write_packet(packet));
    began && first == told && second == "WriterFailed" && writer.failed()
}
