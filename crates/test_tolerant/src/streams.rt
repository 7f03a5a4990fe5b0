//! Lenient reading of packets from streams that give few bytes at once, end early or fail.

use crate::tables::{every_call, told_end};
use pcap_classic::PcapError;
use pcap_tolerant::ReaderAsIs;
use std::alloc::Global;
use std::io::ErrorKind;
use std::test::Fail;
use test_support::captures::front;
use test_support::readers::Halting;
use test_support::rows::{bytes, same};

/// The header of a little-endian capture in microseconds; a valid packet; one with a fraction of more than 4.29 seconds, which is longer
/// than its original; and one whose original length is 0.
pub(crate) const CAPTURE: &str = "d4c3b2a1 02000400 00000000 00000000 00000400 01000000
    07000000 05000000 03000000 03000000 010203
    08000000 38894100 03000000 02000000 040506
    09000000 00000000 03000000 00000000 070809";

// Appends the next packet, or why there is none, with how many bytes are held and taken. Returns whether there is one.
fn put_next(
    alloc: Global,
    reader: &mut ReaderAsIs<Halting>,
    text: &mut String,
) -> Result<bool, Fail> {
    let read = reader.next_header();
    let is_packet = matches!(read, Some(Ok(_)));
    match read {
        Some(Ok(head)) => write!(text, "{head:?} {:?}", reader.packet(head).data)?,
        Some(Err(PcapError::IoError(error))) => write!(text, "{:?}", error.kind())?,
        Some(Err(error)) => text.push_str(told_end(alloc, &error)?.as_str())?,
        None => text.push_str("over")?,
    }
    let (held, taken) = (reader.held().len(), reader.get_ref().taken);
    write!(text, ", {held} held, {taken} taken")?;
    Ok(is_packet)
}

// Formats the packets of a stream, each on a line, and then how many they are and how the stream ends for good.
fn told(alloc: Global, stream: Halting, limit: u32) -> Result<String, Fail> {
    let mut reader = match ReaderAsIs::new(alloc, stream, limit) {
        Ok(reader) => reader,
        Err(error) => return told_end(alloc, &error),
    };
    let mut text = String::new(alloc);
    for packets in 0..9 {
        if !put_next(alloc, &mut reader, &mut text)? {
            let is_over = reader.next_header().is_none() && reader.data().is_empty();
            let failed = reader.failed();
            write!(
                text,
                ", {packets} packets, is over {is_over}, failed {failed}"
            )?;
            break;
        }
        text.push('\n')?;
    }
    Ok(text)
}

// The packets of the capture, and its end.
const PACKETS: &str =
    "HeadAsIs { ts_sec: 7, fraction: 5, incl_len: 3, orig_len: 3, flaws: Flaws { fraction_too_large: false, included_too_long: false, original_too_long: false, included_past_original: false } } [1, 2, 3], 19 held, 43 taken
HeadAsIs { ts_sec: 8, fraction: 4294968, incl_len: 3, orig_len: 2, flaws: Flaws { fraction_too_large: true, included_too_long: false, original_too_long: false, included_past_original: true } } [4, 5, 6], 19 held, 62 taken
HeadAsIs { ts_sec: 9, fraction: 0, incl_len: 3, orig_len: 0, flaws: Flaws { fraction_too_large: false, included_too_long: false, original_too_long: false, included_past_original: true } } [7, 8, 9], 19 held, 81 taken
over, 0 held, 81 taken, 3 packets, is over true, failed false";

#[test]
fn whole_captures(rt: HostRuntime) -> Result<(), Fail> {
    let capture = bytes(rt.alloc(), CAPTURE)?;
    for step in [1, 7, 100] {
        let stream = Halting::new(rt.alloc(), capture.as_slice(), step)?;
        same(told(rt.alloc(), stream, 0)?.as_str(), PACKETS)?;
    }
    Ok(())
}

// The length of the truncated capture, the number of the read that fails, or 0 if none does, and the end after the last packet. The header
// takes one read, and each packet one for its header and one for its data.
const ENDS: &str = "
    25 0 => UnexpectedEof, 1 held, 25 taken, 0 packets, is over true, failed false
    42 0 => UnexpectedEof, 18 held, 42 taken, 0 packets, is over true, failed false
    44 0 => UnexpectedEof, 1 held, 44 taken, 1 packets, is over true, failed false
    61 0 => UnexpectedEof, 18 held, 61 taken, 1 packets, is over true, failed false
    80 0 => UnexpectedEof, 18 held, 80 taken, 2 packets, is over true, failed false
    81 2 => TimedOut, 0 held, 24 taken, 0 packets, is over true, failed true
    81 3 => TimedOut, 16 held, 40 taken, 0 packets, is over true, failed true
    81 4 => TimedOut, 0 held, 43 taken, 1 packets, is over true, failed true
    81 7 => TimedOut, 16 held, 78 taken, 2 packets, is over true, failed true";

// Formats the end of a stream that is truncated or fails.
fn told_last(alloc: Global, words: &str, _given: &[u8]) -> Result<String, Fail> {
    let (len, fails_at) = words.split_once(' ').ok_or("a length")?;
    let len = len.parse::<usize>().ok().ok_or("a length")?;
    let fails_at = fails_at.parse::<usize>().ok().ok_or("a number")?;
    let capture = bytes(alloc, CAPTURE)?;
    let mut stream = Halting::new(alloc, front(capture.as_slice(), len), 100)?;
    stream.fails_at = fails_at;
    stream.kind = ErrorKind::TimedOut;
    let text = told(alloc, stream, 0)?;
    Ok(String::from_str(alloc, text.lines().last().unwrap_or(""))?)
}

#[test]
fn early_ends_and_failed_reads(rt: HostRuntime) -> Result<(), Fail> {
    every_call(rt.alloc(), ENDS, told_last)
}

// Limits, and captures: one whose packet has a stored length of 262145 and three bytes, and one with a malformed header. Only the header of
// the refused packet is taken, and below the limit all bytes that came.
const LIMITS: &str = "
    0: d4c3b2a1 02000400 00000000 00000000 00000400 01000000 00000000 00000000 01000400 01000400 010203 => invalid PacketHeader incl_len > 0x40000, 16 held, 40 taken, 0 packets, is over true, failed false
    262144: d4c3b2a1 02000400 00000000 00000000 00000400 01000000 00000000 00000000 01000400 01000400 010203 => invalid PacketHeader incl_len > 0x40000, 16 held, 40 taken, 0 packets, is over true, failed false
    262145: d4c3b2a1 02000400 00000000 00000000 00000400 01000000 00000000 00000000 01000400 01000400 010203 => UnexpectedEof, 19 held, 43 taken, 0 packets, is over true, failed false
    0: 07070707 07070707 07070707 07070707 07070707 07070707 => invalid PcapHeader wrong magic number";

// Formats the packets of a stream under the limit that the words name.
fn told_under(alloc: Global, words: &str, given: &[u8]) -> Result<String, Fail> {
    let limit = words.parse::<u32>().ok().ok_or("a limit")?;
    let stream = Halting::new(alloc, given, 100)?;
    told(alloc, stream, limit)
}

#[test]
fn lengths_above_the_limit_of_a_stream(rt: HostRuntime) -> Result<(), Fail> {
    every_call(rt.alloc(), LIMITS, told_under)
}
