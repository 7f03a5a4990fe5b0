//! PcapNg captures converted to classic captures.

use crate::block_rows::{PLACED, UNPLACED};
use crate::told::{fault_of, filled};
use pcap_file::pcap::PcapHeader;
use pcap_file::run::{IfUnplaced, NgConverted, convert_to_pcap};
use pcap_file::{PcapNgReader, PcapWriter, ResultParsing};
use std::alloc::{AllocError, Global};
use std::fmt::Display;
use std::io::ErrorKind;
use std::test::Fail;
use test_support::captures::{back, front};
use test_support::readers::Halting;
use test_support::rows::bytes;
use test_support::writers::Narrow;

// A row: what happens to packets that can't be converted, the most blocks, the header that is written, and the capture.
#[derive(Drop)]
struct Row {
    unplaced: IfUnplaced,
    most: u64,
    header: PcapHeader,
    capture: Vec<u8>,
}

fn row_of(alloc: Global, given: &str) -> Result<Row, Fail> {
    let (choice, rest) = given
        .trim()
        .split_once(' ')
        .ok_or("a row without a choice")?;
    let (most, rest) = rest.split_once(' ').ok_or("a row without a number")?;
    let (header, digits) = rest.split_once(' ').ok_or("a row without a header")?;
    let head = bytes(alloc, header)?;
    let (_rest, header) = PcapHeader::from_slice(head.as_slice())?;
    let unplaced = if choice == "refuse" {
        IfUnplaced::Refuse
    } else {
        IfUnplaced::LeaveOut
    };
    Ok(Row {
        unplaced,
        most: most.parse::<u64>().unwrap_or(0),
        header,
        capture: bytes(alloc, digits)?,
    })
}

// Adds the counts of a conversion, and why it ended.
fn tell_counts(told: &mut String, ended: &NgConverted) -> Result<(), AllocError> {
    let (packets, left_out, fault) = (ended.packets, ended.left_out, fault_of(&ended.fault));
    write!(told, "{} {packets} {left_out} {fault}", ended.blocks)
}

// Converts, and adds the counts, and whether a read or a write failed. After a failed write it adds the counts of a second conversion.
fn tell(
    alloc: Global,
    row: &Row,
    reader: &mut PcapNgReader<Halting>,
    writer: &mut PcapWriter<Narrow>,
    told: &mut String,
) -> Result<(), AllocError> {
    let ended = convert_to_pcap(alloc, reader, writer, row.unplaced, row.most);
    tell_counts(told, &ended)?;
    if reader.failed() {
        told.push_str(" read failed")?;
    }
    if !writer.failed() {
        return Ok(());
    }
    told.push_str(" write failed, again ")?;
    let again = convert_to_pcap(alloc, reader, writer, row.unplaced, row.most);
    tell_counts(told, &again)
}

// Converts a stream, and returns what it tells, and what is written to this output.
fn converted(
    alloc: Global,
    row: &Row,
    stream: Halting,
    output: Narrow,
) -> ResultParsing<(String, Vec<u8>)> {
    let mut told = String::new(alloc);
    let mut reader = PcapNgReader::new(alloc, stream)?;
    let mut writer = PcapWriter::with_header(row.header, output)?;
    tell(alloc, row, &mut reader, &mut writer, &mut told)?;
    Ok((told, writer.into_writer().out))
}

// Checks what a conversion tells, and the bytes that it writes after the header. A failure has the case's name.
fn becomes<D: Display + Drop>(
    alloc: Global,
    name: D,
    row: &Row,
    (stream, output): (Halting, Narrow),
    wanted: &str,
    packets: &[u8],
) -> Result<(), Fail> {
    let (told, out) = converted(alloc, row, stream, output)?;
    let is_written = back(out.as_slice(), 24) == packets;
    if told.as_str() == wanted && is_written {
        return Ok(());
    }
    Err(Fail::new(format_args!(
        "{name}: {told} in place of {wanted}; the right bytes are written: {is_written}"
    )))
}

// Checks that the capture of a row is converted as the row says.
fn converts(alloc: Global, line: &str) -> Result<(), Fail> {
    let (given, told) = line.split_once("=>").ok_or("a row with no arrow")?;
    let (ending, digits) = told.split_once('|').ok_or("a row without a bar")?;
    let row = row_of(alloc, given)?;
    let packets = bytes(alloc, digits)?;
    let stream = Halting::new(alloc, row.capture.as_slice(), 5)?;
    let output = Narrow::new(alloc, 1000, true);
    becomes(
        alloc,
        line,
        &row,
        (stream, output),
        ending.trim(),
        packets.as_slice(),
    )
}

#[test]
fn captures(rt: HostRuntime) -> Result<(), Fail> {
    for table in [PLACED, UNPLACED] {
        for line in filled(table)?.lines() {
            converts(rt.alloc(), line)?;
        }
    }
    Ok(())
}

// Returns the first capture and its packets. Its blocks end after 28, 60, 112, 156, 192, 208, 232, 252, 284 and 300 bytes, and the
// packets after 21, 41 and 57 bytes.
fn three_packets(alloc: Global) -> Result<(Row, Vec<u8>), Fail> {
    let (given, told) = PLACED.trim().split_once("=>").ok_or("no row")?;
    let (_ending, after) = told.split_once('|').ok_or("a row without a bar")?;
    let packets = after.lines().next().ok_or("a row without packets")?;
    Ok((row_of(alloc, given)?, bytes(alloc, packets)?))
}

// Checks that a writer with `room` bytes after the header fails once, with a beginning of the packets written, and then refuses.
fn fails(alloc: Global, row: &Row, packets: &[u8], room: usize) -> Result<(), Fail> {
    let stream = Halting::new(alloc, row.capture.as_slice(), 100)?;
    let output = Narrow::new(alloc, room.saturating_add(24), true);
    let wanted = match room {
        0..21 => "1 0 0 Other write failed, again 0 0 0 WriterFailed",
        21..41 => "3 1 0 Other write failed, again 0 0 0 WriterFailed",
        _ => "7 2 0 Other write failed, again 0 0 0 WriterFailed",
    };
    becomes(
        alloc,
        format_args!("at {room}"),
        row,
        (stream, output),
        wanted,
        front(packets, room),
    )
}

#[test]
fn every_failed_write(rt: HostRuntime) -> Result<(), Fail> {
    let (row, packets) = three_packets(rt.alloc())?;
    for room in 0..57 {
        fails(rt.alloc(), &row, packets.as_slice(), room)?;
    }
    Ok(())
}

// Returns the blocks after the section, the packets, and the bytes of packets in the first `end` bytes of that capture.
fn converted_of(end: usize) -> (u64, u64, usize) {
    match end {
        0..60 => (0, 0, 0),
        60..112 => (1, 0, 0),
        112..156 => (2, 1, 21),
        156..192 => (3, 1, 21),
        192..208 => (4, 2, 41),
        208..232 => (5, 2, 41),
        232..252 => (6, 2, 41),
        252..284 => (7, 2, 41),
        284..300 => (8, 3, 57),
        _ => (9, 3, 57),
    }
}

// Checks that a reader whose read fails after `end` bytes converts what came before.
fn reads(alloc: Global, row: &Row, packets: &[u8], end: usize) -> Result<(), Fail> {
    let mut stream = Halting::new(alloc, row.capture.as_slice(), 1)?;
    stream.fails_at = end.saturating_add(1);
    stream.kind = ErrorKind::Interrupted;
    let (blocks, count, used) = converted_of(end);
    let wanted = format!(in alloc; "{blocks} {count} 0 Interrupted read failed")?;
    let output = Narrow::new(alloc, 1000, true);
    becomes(
        alloc,
        format_args!("at {end}"),
        row,
        (stream, output),
        wanted.as_str(),
        front(packets, used),
    )
}

#[test]
fn every_failed_read(rt: HostRuntime) -> Result<(), Fail> {
    let (row, packets) = three_packets(rt.alloc())?;
    // the call that fails comes after this many bytes, one a call
    for end in 28..301 {
        reads(rt.alloc(), &row, packets.as_slice(), end)?;
    }
    Ok(())
}
