//! Lenient reading of blocks from streams that give few bytes at once, end early or fail.

use crate::block_rows;
use crate::blocks::put_block;
use crate::tables::{every_call, told_end};
use pcap_core::PcapError;
use pcap_tolerant_captures::PcapNgReaderAsIs;
use std::alloc::Global;
use std::io::ErrorKind;
use std::test::Fail;
use test_support::captures::front;
use test_support::readers::Halting;
use test_support::rows::{bytes, same};

type Reader = PcapNgReaderAsIs<Halting>;

// Appends the next block, or why there is none. Returns whether the caller has to ask the reader again: after a block, and also after a
// refused block, behind which the reader must give nothing more. After a failed read, this function asks the reader once more itself.
fn put_next(alloc: Global, reader: &mut Reader, text: &mut String) -> Result<bool, Fail> {
    match reader.next_header() {
        Some(Ok(lent)) => {
            let head = (lent.header.type_, lent.flaws.as_slice());
            put_block(text, head, reader.parser(), &reader.enhanced(lent.header)?)?;
            return Ok(true);
        }
        Some(Err(PcapError::IoError(error))) => {
            let is_over = reader.next_header().is_none() && reader.text().is_empty();
            let (kind, failed) = (error.kind(), reader.failed());
            write!(text, "; {kind:?}, is over {is_over}, failed {failed}")?;
        }
        Some(Err(error)) => {
            write!(text, "; {}", told_end(alloc, &error)?)?;
            return Ok(true);
        }
        None => {}
    }
    Ok(false)
}

// Formats the blocks of a stream, why no other follows, and whatever the reader still gives after that.
fn told(alloc: Global, stream: Halting) -> Result<String, Fail> {
    let mut reader = PcapNgReaderAsIs::new(alloc, stream);
    let mut text = String::new(alloc);
    for _ in 0..99 {
        if !put_next(alloc, &mut reader, &mut text)? {
            break;
        }
    }
    let (_, text) = text.split_once("; ").unwrap_or(("", ""));
    Ok(String::from_str(alloc, text)?)
}

// Returns whether the capture of a row is read as it says, `step` bytes at a time. If bytes are missing, the reader reports the end of the
// stream, and gives nothing more.
fn is_told(alloc: Global, row: &str, step: usize) -> Result<bool, Fail> {
    let (digits, text) = row.split_once(" => ").ok_or("a row with no arrow")?;
    let capture = bytes(alloc, digits)?;
    let told = told(alloc, Halting::new(alloc, capture.as_slice(), step)?)?;
    match (told.split_once("UnexpectedEof"), text.split_once("needs ")) {
        (Some((told, end)), Some((text, _))) => {
            Ok(told == text && end == ", is over true, failed false")
        }
        _ => Ok(told.as_str() == text),
    }
}

#[test]
fn blocks_of_streams(rt: HostRuntime) -> Result<(), Fail> {
    for table in [block_rows::OPTIONS, block_rows::NUMBERS, block_rows::ENDS] {
        for row in table.trim().lines() {
            for step in [1, 7, 100] {
                assert!(rt; is_told(rt.alloc(), row, step)?, "{step} at a time: {row}");
            }
        }
    }
    Ok(())
}

// A section header of 28 bytes, an interface of 20 and a packet of 36.
const CAPTURE: &str =
    "0a0d0d0a 1c000000 4d3c2b1a 01000000 ffffffff ffffffff 1c000000 01000000 14000000 01000000 00000400 14000000 06000000 24000000 00000000 00000000 07000000 01000000 01000000 aa000000 24000000";

// Appends the length of the next block, how many bytes were taken up to its end, and how many the reader lends as its text and as its body.
fn put_taken(reader: &mut Reader, text: &mut String) -> Result<(), Fail> {
    let lent = reader.next_header().ok_or("a block")??;
    let (len, taken) = (lent.header.initial_len, reader.get_ref().taken);
    let (text_len, body_len) = (reader.text().len(), reader.body().len());
    Ok(write!(
        text,
        "{len} {taken} {text_len} {body_len} {:?}; ",
        lent.flaws
    )?)
}

// Formats that for the three blocks of the capture, and how the stream ends.
fn told_taken(alloc: Global, step: usize) -> Result<String, Fail> {
    let capture = bytes(alloc, CAPTURE)?;
    let stream = Halting::new(alloc, capture.as_slice(), step)?;
    let mut reader = PcapNgReaderAsIs::new(alloc, stream);
    let mut text = String::new(alloc);
    for _ in 0..3 {
        put_taken(&mut reader, &mut text)?;
    }
    let is_over = reader.next_header().is_none() && reader.text().is_empty();
    write!(text, "is over {is_over}, failed {}", reader.failed())?;
    Ok(text)
}

#[test]
fn nothing_is_taken_ahead(rt: HostRuntime) -> Result<(), Fail> {
    let taken = "28 28 28 16 []; 20 48 20 8 []; 36 84 36 24 []; is over true, failed false";
    for step in [1, 7, 100] {
        same(told_taken(rt.alloc(), step)?.as_str(), taken)?;
    }
    Ok(())
}

// The length of the truncated capture, the number of the read that fails, or 0 if none does, and the blocks before the end. Each block
// takes one read for its head and one for the rest.
const ENDS: &str = "
    3 0 => UnexpectedEof, is over true, failed false
    27 0 => UnexpectedEof, is over true, failed false
    29 0 => SectionHeader []; UnexpectedEof, is over true, failed false
    47 0 => SectionHeader []; UnexpectedEof, is over true, failed false
    60 0 => SectionHeader []; InterfaceDescription []; UnexpectedEof, is over true, failed false
    83 0 => SectionHeader []; InterfaceDescription []; UnexpectedEof, is over true, failed false
    84 1 => TimedOut, is over true, failed true
    84 2 => TimedOut, is over true, failed true
    84 3 => SectionHeader []; TimedOut, is over true, failed true
    84 4 => SectionHeader []; TimedOut, is over true, failed true
    84 6 => SectionHeader []; InterfaceDescription []; TimedOut, is over true, failed true";

// Formats the blocks of a stream that is truncated or fails.
fn told_ending(alloc: Global, words: &str, _given: &[u8]) -> Result<String, Fail> {
    let (len, fails_at) = words.split_once(' ').ok_or("a length")?;
    let len = len.parse::<usize>().ok().ok_or("a length")?;
    let fails_at = fails_at.parse::<usize>().ok().ok_or("a number")?;
    let capture = bytes(alloc, CAPTURE)?;
    let mut stream = Halting::new(alloc, front(capture.as_slice(), len), 100)?;
    stream.fails_at = fails_at;
    stream.kind = ErrorKind::TimedOut;
    told(alloc, stream)
}

#[test]
fn early_ends_and_failed_reads(rt: HostRuntime) -> Result<(), Fail> {
    every_call(rt.alloc(), ENDS, told_ending)
}
