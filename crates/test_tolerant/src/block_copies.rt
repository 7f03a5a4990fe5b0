//! Lenient copies of PcapNg captures: each copy is a front of the input, byte for byte.

use crate::run_rows::RUNS;
use pcap_core::PcapError;
use pcap_tolerant_captures::{NgCopiedAsIs, copy_pcapng_as_is, copy_pcapng_as_is_buffered};
use std::alloc::Global;
use std::io::{BufReader, Write};
use std::test::Fail;
use test_support::captures::front;
use test_support::readers::Halting;
use test_support::rows::bytes;
use test_support::writers::Narrow;

// How a stream is copied: how many bytes come at a time, the size of the buffer, which is 0 if there is none, and the most blocks.
#[derive(Clone, Copy)]
struct Way {
    step: usize,
    room: usize,
    most: u64,
}

// Copies a capture. Returns also how many bytes of the stream were taken.
fn copy<W: Write>(
    alloc: Global,
    capture: &[u8],
    way: Way,
    out: &mut W,
) -> Result<(NgCopiedAsIs, usize), Fail> {
    let mut stream = Halting::new(alloc, capture, way.step)?;
    if way.room == 0 {
        let copied = copy_pcapng_as_is(alloc, &mut stream, out, way.most);
        return Ok((copied, stream.taken));
    }
    let mut reader = BufReader::with_capacity(alloc, way.room, stream)?;
    let copied = copy_pcapng_as_is_buffered(alloc, &mut reader, out, way.most);
    Ok((copied, capture.len()))
}

// Returns whether a copy ended as the row of a run says. If bytes are missing, the copy reports the end of the stream.
fn is_ended(copied: &NgCopiedAsIs, ended: &str) -> bool {
    match &copied.fault {
        None => ended == "clean",
        Some(PcapError::IoError(_)) => ended.starts_with("needs "),
        Some(PcapError::InvalidField(message)) => ended.split_once("invalid ")
            == Some(("", *message)),
        Some(_) => false,
    }
}

// Returns whether a copy has as many blocks and bytes as the row of a run says, and ended as it says.
fn is_run(copied: &NgCopiedAsIs, len: usize, run: &str) -> bool {
    let (blocks, run) = run.split_once(" blocks, ").unwrap_or(("0", run));
    let (run, ended) = run.split_once(" bytes, ").unwrap_or(("0, 0", run));
    let (_flaws, bytes) = run.rsplit_once(", ").unwrap_or(("", run));
    blocks.parse::<u64>().ok() == Some(copied.blocks)
        && bytes.parse::<usize>().ok() == Some(len)
        && is_ended(copied, ended)
}

// Returns whether the capture of a row is copied as its run says.
fn is_copied(alloc: Global, row: &str, way: Way) -> Result<bool, Fail> {
    let (digits, run) = row.split_once("=>").ok_or("a row with no arrow")?;
    let capture = bytes(alloc, digits)?;
    let mut out = Vec::new(alloc);
    let (copied, _taken) = copy(alloc, capture.as_slice(), way, &mut out)?;
    let is_front = out.as_slice() == front(capture.as_slice(), out.len());
    Ok(is_front && is_run(&copied, out.len(), run.trim()))
}

#[test]
fn fronts_go_out(rt: HostRuntime) -> Result<(), Fail> {
    for row in RUNS.trim().lines() {
        for size in [1, 7, 60, 400] {
            let mut way = Way {
                step: size,
                room: 0,
                most: 99,
            };
            assert!(rt; is_copied(rt.alloc(), row, way)?, "{size} at a time: {row}");
            (way.step, way.room) = (100, size);
            assert!(rt; is_copied(rt.alloc(), row, way)?, "through {size}: {row}");
        }
    }
    Ok(())
}

// A section header and an interface, first in big-endian and then in little-endian order: 28, 20, 28 and 20 bytes.
const SECTIONS: &str =
    "0a0d0d0a 0000001c 1a2b3c4d 00010000 ffffffff ffffffff 0000001c  00000001 00000014 00010000 00040000 00000014
    0a0d0d0a 1c000000 4d3c2b1a 01000000 ffffffff ffffffff 1c000000  01000000 14000000 01000000 00000400 14000000";

// Returns how many blocks of the two sections are whole in their first `len` bytes, and the size of those blocks.
fn whole_in(len: usize) -> (u64, usize) {
    match len {
        0..=27 => (0, 0),
        28..=47 => (1, 28),
        48..=75 => (2, 48),
        76..=95 => (3, 76),
        _ => (4, 96),
    }
}

// Returns whether a copy of at most `most` blocks of the two sections takes exactly `used` bytes.
fn copies_most(alloc: Global, most: u64, used: usize) -> Result<bool, Fail> {
    let capture = bytes(alloc, SECTIONS)?;
    let way = Way {
        step: 100,
        room: 0,
        most,
    };
    let mut out = Vec::new(alloc);
    let (copied, taken) = copy(alloc, capture.as_slice(), way, &mut out)?;
    let is_front = out.as_slice() == front(capture.as_slice(), used) && taken == used;
    Ok(copied.fault.is_none() && copied.blocks == most && is_front)
}

#[test]
fn the_most_blocks(rt: HostRuntime) -> Result<(), Fail> {
    for most in 0..5 {
        let used = [0, 28, 48, 76, 96][most];
        assert!(rt; copies_most(rt.alloc(), most as u64, used)?, "{most}");
    }
    Ok(())
}

// Returns whether the first `len` bytes of the two sections are copied up to the last whole block, through a buffer of this size.
fn copies_front(alloc: Global, len: usize, room: usize) -> Result<bool, Fail> {
    let capture = bytes(alloc, SECTIONS)?;
    let way = Way {
        step: 9,
        room,
        most: 99,
    };
    let mut out = Vec::new(alloc);
    let (copied, _taken) = copy(alloc, front(capture.as_slice(), len), way, &mut out)?;
    let (blocks, used) = whole_in(len);
    let is_told = copied.blocks == blocks && copied.fault.is_none() == (used == len);
    Ok(is_told && out.as_slice() == front(capture.as_slice(), used))
}

// Returns whether a writer with room for `len` bytes takes a front of that length, through a buffer of this size.
fn fills(alloc: Global, len: usize, room: usize) -> Result<bool, Fail> {
    let capture = bytes(alloc, SECTIONS)?;
    let way = Way {
        step: 100,
        room,
        most: 99,
    };
    let mut output = Narrow::new(alloc, len, true);
    let (copied, _taken) = copy(alloc, capture.as_slice(), way, &mut output)?;
    let (blocks, _used) = whole_in(len);
    let is_front = output.out.as_slice() == front(capture.as_slice(), len);
    Ok(copied.write_failed && copied.blocks == blocks && is_front)
}

#[test]
fn early_ends_and_failed_writes(rt: HostRuntime) -> Result<(), Fail> {
    for len in 0..96 {
        for room in [0, 50] {
            assert!(rt;
                copies_front(rt.alloc(), len, room)?,
                "{len} through {room}"
            );
            assert!(rt; fills(rt.alloc(), len, room)?, "{len} through {room}");
        }
    }
    Ok(())
}
