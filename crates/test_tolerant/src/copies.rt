//! Copies of captures whose packets break rules: each copy is a front of the input, byte for byte. The captures were written by hand.

use crate::tables::every_call;
use pcap_classic::run::Copied;
use pcap_core::PcapError;
use pcap_tolerant::{copy_pcap_as_is, copy_pcap_as_is_buffered};
use std::alloc::Global;
use std::io::{BufReader, ErrorKind, Write};
use std::test::Fail;
use test_support::captures::front;
use test_support::readers::Halting;
use test_support::rows::{bytes, same};
use test_support::writers::Narrow;

/// A big-endian header, a valid packet of one byte, one whose original length is 0, one without data, one with a fraction of 5 seconds,
/// and one more byte.
pub(crate) const TORN: &str = "a1b2c3d4 00020004 00000000 00000000 0000ffff 00000001
     00000001 00000002 00000001 00000001 aa  00000001 00000002 00000001 00000000 bb
     00000001 00000002 00000000 00000000     00000001 004c4b40 00000000 00000000  cc";

/// Returns how many packets of the torn capture are whole in its first `len` bytes.
pub(crate) fn whole_in(len: usize) -> usize {
    match len {
        0..=40 => 0,
        41..=57 => 1,
        58..=73 => 2,
        74..=89 => 3,
        _ => 4,
    }
}

// A little-endian header, a flawed packet of two bytes, and one whose stored length is 262145.
const LONG: &str = "4d3cb2a1 02000400 00000000 00000000 ffff0000 01000000
     01000000 02000000 02000000 01000000 aabb  01000000 02000000 01000400 01000400 cc";

// Four bytes that are no magic number, and then the other bytes of a header.
const NONE: &str = "a1b2c3d5 00020004 00000000 00000000 0000ffff 00000001";

// A capture, its limit, the most packets, how many packets and bytes are copied, and how the copy ends.
const COPIES: &str = "
    torn 0 99 => 4 packets, 90 bytes, torn
    torn 0 4 => 4 packets, 90 bytes, whole
    torn 0 3 => 3 packets, 74 bytes, whole
    torn 0 1 => 1 packets, 41 bytes, whole
    torn 0 0 => 0 packets, 24 bytes, whole
    long 0 99 => 1 packets, 42 bytes, refused
    long 262144 99 => 1 packets, 42 bytes, refused
    long 262145 99 => 1 packets, 42 bytes, torn
    none 0 99 => 0 packets, 0 bytes, refused";

// How a stream is copied: how many bytes come at a time, the size of the buffer, which is 0 if there is none, the limit, and the most
// packets.
#[derive(Clone, Copy)]
struct Way {
    step: usize,
    room: usize,
    limit: u32,
    most: u64,
}

// Copies a capture. Returns also how many bytes of the stream were taken, as far as that is known of a copy without a buffer.
fn copy<W: Write>(
    alloc: Global,
    capture: &[u8],
    way: Way,
    out: &mut W,
) -> Result<(Copied, Option<usize>), Fail> {
    let mut stream = Halting::new(alloc, capture, way.step)?;
    if way.room > 0 {
        let mut reader = BufReader::with_capacity(alloc, way.room, stream)?;
        let copied = copy_pcap_as_is_buffered(alloc, &mut reader, out, way.limit, way.most);
        return Ok((copied, None));
    }
    let copied = copy_pcap_as_is(alloc, &mut stream, out, way.limit, way.most);
    Ok((copied, Some(stream.taken)))
}

// Returns how a copy ended, or that it wrote other bytes than the front of the capture, or that a whole copy took bytes behind its last
// packet.
fn ending(copied: &Copied, is_front: bool, is_exact: bool) -> &'static str {
    match &copied.fault {
        _ if !is_front => "not a front",
        _ if copied.read_failed || copied.write_failed => "failed",
        None if is_exact => "whole",
        None => "taken ahead",
        Some(PcapError::IoError(e)) if e.kind() == ErrorKind::UnexpectedEof => "torn",
        Some(PcapError::InvalidField(_)) => "refused",
        Some(_) => "otherwise",
    }
}

// Formats the result of a copy.
fn told(alloc: Global, capture: &[u8], way: Way) -> Result<String, Fail> {
    let mut out = Vec::new(alloc);
    let (copied, taken) = copy(alloc, capture, way, &mut out)?;
    let len = out.len();
    let is_front = out.as_slice() == front(capture, len);
    let ending = ending(&copied, is_front, taken.unwrap_or(len) == len);
    let packets = copied.packets;
    Ok(format!(in alloc; "{packets} packets, {len} bytes, {ending}")?)
}

// Formats the result that all copies of a capture have, through buffers and without one. The words name the capture and its limits.
fn told_copies(alloc: Global, words: &str, _given: &[u8]) -> Result<String, Fail> {
    let (name, limits) = words.split_once(' ').ok_or("a capture")?;
    let (limit, most) = limits.split_once(' ').ok_or("a limit")?;
    let limit = limit.parse::<u32>().ok().ok_or("a limit")?;
    let most = most.parse::<u64>().ok().ok_or("the most packets")?;
    let digits = match name {
        "torn" => TORN,
        "long" => LONG,
        "none" => NONE,
        _ => return Err("an unknown capture")?,
    };
    let capture = bytes(alloc, digits)?;
    let mut way = Way {
        step: 1,
        room: 0,
        limit,
        most,
    };
    let said = told(alloc, capture.as_slice(), way)?;
    for size in [1, 7, 30, 100] {
        (way.step, way.room) = (size, 0);
        same(
            told(alloc, capture.as_slice(), way)?.as_str(),
            said.as_str(),
        )?;
        (way.step, way.room) = (100, size);
        same(
            told(alloc, capture.as_slice(), way)?.as_str(),
            said.as_str(),
        )?;
    }
    Ok(said)
}

#[test]
fn fronts_go_out(rt: HostRuntime) -> Result<(), Fail> {
    every_call(rt.alloc(), COPIES, told_copies)
}

// Returns whether a writer with room for `len` bytes takes a front of the torn capture of that length, through a buffer of this size.
fn fills(alloc: Global, len: usize, room: usize) -> Result<bool, Fail> {
    let capture = bytes(alloc, TORN)?;
    let mut output = Narrow::new(alloc, len, true);
    let way = Way {
        step: 100,
        room,
        limit: 0,
        most: 99,
    };
    let (copied, _taken) = copy(alloc, capture.as_slice(), way, &mut output)?;
    let is_front = output.out.as_slice() == front(capture.as_slice(), len);
    Ok(copied.write_failed && copied.packets == whole_in(len) as u64 && is_front)
}

#[test]
fn failed_writes(rt: HostRuntime) -> Result<(), Fail> {
    for len in 0..90 {
        for room in [0, 50] {
            assert!(rt; fills(rt.alloc(), len, room)?, "{len} through {room}");
        }
    }
    Ok(())
}
