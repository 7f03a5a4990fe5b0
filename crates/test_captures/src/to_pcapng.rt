//! Classic captures converted to PcapNg captures.

use crate::packet_rows::{MOST, REFUSED, WHOLE};
use crate::told::{fault_of, filled};
use pcap_file::run::convert_to_pcapng;
use std::alloc::{AllocError, Global};
use std::fmt::Display;
use std::io::ErrorKind;
use std::test::Fail;
use test_support::captures::front;
use test_support::readers::Halting;
use test_support::rows::bytes;
use test_support::writers::Narrow;

// Converts a stream, and returns how many packets were written, how many bytes were taken, why it ended, and what failed.
fn converted(
    alloc: Global,
    stream: &mut Halting,
    output: &mut Narrow,
    most: u64,
) -> Result<String, AllocError> {
    let mut told = String::new(alloc);
    let copied = convert_to_pcapng(alloc, stream, output, most);
    let (packets, fault) = (copied.packets, fault_of(&copied.fault));
    write!(told, "{packets} {} {fault}", stream.taken)?;
    if copied.read_failed {
        told.push_str(" read failed")?;
    }
    if copied.write_failed {
        told.push_str(" write failed")?;
    }
    Ok(told)
}

// Checks what a conversion tells, and the bytes that it writes. A failure has the case's name.
fn becomes<D: Display + Drop>(
    alloc: Global,
    name: D,
    (mut stream, mut output): (Halting, Narrow),
    most: u64,
    wanted: &str,
    blocks: &[u8],
) -> Result<(), Fail> {
    let told = converted(alloc, &mut stream, &mut output, most)?;
    let is_written = output.out.as_slice() == blocks;
    if told.as_str() == wanted && is_written {
        return Ok(());
    }
    Err(Fail::new(format_args!(
        "{name}: {told} in place of {wanted}; the right bytes are written: {is_written}"
    )))
}

// Checks that the capture of a row is converted as the row says.
fn converts(alloc: Global, line: &str) -> Result<(), Fail> {
    let (given, told) = line.split_once("=>").ok_or("a row with no arrow")?;
    let (most, digits) = given
        .trim_start()
        .split_once(' ')
        .ok_or("a row without a number")?;
    let (ending, blocks) = told.split_once('|').ok_or("a row without a bar")?;
    let stream = Halting::new(alloc, bytes(alloc, digits)?.as_slice(), 5)?;
    let output = Narrow::new(alloc, 1000, true);
    let most = most.parse::<u64>().unwrap_or(0);
    let blocks = bytes(alloc, blocks)?;
    becomes(
        alloc,
        line,
        (stream, output),
        most,
        ending.trim(),
        blocks.as_slice(),
    )
}

#[test]
fn captures(rt: HostRuntime) -> Result<(), Fail> {
    for table in [WHOLE, MOST, REFUSED] {
        for line in filled(table)?.lines() {
            converts(rt.alloc(), line)?;
        }
    }
    Ok(())
}

// Returns the capture of the first row, 71 bytes, and its blocks, 140 bytes.
fn two_packets(alloc: Global) -> Result<(Vec<u8>, Vec<u8>), Fail> {
    let (given, told) = WHOLE.trim().split_once("=>").ok_or("no row")?;
    let (_most, digits) = given.split_once(' ').ok_or("a row without a number")?;
    let (_ending, after) = told.split_once('|').ok_or("a row without a bar")?;
    let blocks = after.lines().next().ok_or("a row without blocks")?;
    Ok((bytes(alloc, digits)?, bytes(alloc, blocks)?))
}

// Returns how many packets and how many bytes of blocks the first `end` bytes of that capture give.
fn converted_of(end: usize) -> (u64, usize) {
    match end {
        0..24 => (0, 0),
        24..47 => (0, 60),
        47..71 => (1, 100),
        _ => (2, 140),
    }
}

// Checks that the first `end` bytes become the blocks of the packets that are whole in them. The stream ends after these bytes. Or it has
// the whole capture, gives one byte a read, and fails after these bytes: then they become the same.
fn begins(
    alloc: Global,
    (capture, blocks): (&[u8], &[u8]),
    end: usize,
    fails: bool,
) -> Result<(), Fail> {
    let given = if fails { capture } else { front(capture, end) };
    let mut stream = Halting::new(alloc, given, 7)?;
    let mut fault = if matches!(end, 24 | 47 | 71) {
        "none"
    } else {
        "IoError"
    };
    if fails {
        fault = "Interrupted read failed";
        stream.step = 1;
        stream.fails_at = end.saturating_add(1);
        stream.kind = ErrorKind::Interrupted;
    }
    let (packets, used) = converted_of(end);
    let wanted = format!(in alloc; "{packets} {end} {fault}")?;
    let output = Narrow::new(alloc, 1000, true);
    becomes(
        alloc,
        format_args!("at {end}"),
        (stream, output),
        9,
        wanted.as_str(),
        front(blocks, used),
    )
}

#[test]
fn every_beginning_and_failed_read(rt: HostRuntime) -> Result<(), Fail> {
    let (capture, blocks) = two_packets(rt.alloc())?;
    for end in 0..72 {
        for fails in [false, true] {
            begins(
                rt.alloc(),
                (capture.as_slice(), blocks.as_slice()),
                end,
                fails,
            )?;
        }
    }
    Ok(())
}

// Returns how many packets were written and how many bytes of the capture taken if a write failed after `room` bytes.
fn taken_behind(room: usize) -> (u64, usize) {
    match room {
        0..60 => (0, 24),
        60..100 => (0, 47),
        _ => (1, 71),
    }
}

// Checks that the expected bytes are written to an output for `room` bytes, at most `step` a call, which then fails or takes nothing.
fn fills(
    alloc: Global,
    (capture, blocks): (&[u8], &[u8]),
    room: usize,
    step: usize,
    fails: bool,
) -> Result<(), Fail> {
    let stream = Halting::new(alloc, capture, 100)?;
    let mut output = Narrow::new(alloc, room, fails);
    output.step = step;
    let (packets, taken) = taken_behind(room);
    let fault = if fails { "Other" } else { "WriteZero" };
    let wanted = format!(in alloc; "{packets} {taken} {fault} write failed")?;
    becomes(
        alloc,
        format_args!("at {room} by {step}"),
        (stream, output),
        9,
        wanted.as_str(),
        front(blocks, room),
    )
}

#[test]
fn every_failed_write(rt: HostRuntime) -> Result<(), Fail> {
    let (capture, blocks) = two_packets(rt.alloc())?;
    let rows = (capture.as_slice(), blocks.as_slice());
    for room in 0..140 {
        fills(rt.alloc(), rows, room, 1000, true)?;
        fills(rt.alloc(), rows, room, 1000, false)?;
        fills(rt.alloc(), rows, room, 7, true)?;
    }
    Ok(())
}
