//! Writers that fail.
//!
//! A word of a `told_writer` row is one call. `2=1` says that a write of the next two bytes of the stream takes one. `1=Other` says that a
//! write of one byte fails so. `flush=0` says that a flush succeeds. At `room=` the test gives the writer space for one byte again.

use crate::calls::every_row;
use crate::names::{is_failure, is_taken, name_of_kind};
use pcap_classic::PcapError;
use pcap_classic::pcap::{PcapHeader, PcapWriter};
use pcap_classic::stream::Told;
use std::alloc::Global;
use std::io;
use std::io::Write;
use std::test::Fail;
use test_support::captures::{back, front};
use test_support::writers::Narrow;

#[test]
fn every_room(rt: HostRuntime) -> Result<(), Fail> {
    let table = "
        0..24: write room=n fails=0 => refused WriteZero, one n
        24..138: write room=n fails=0 => WriteZero, one n
        0..24: write room=n => refused Other, one n
        24..138: write room=n => Other, one n
    ";
    every_row(rt.alloc(), table)
}

// Each call of a writer that takes at most ten bytes of the capture in a call, and how many bytes were written before it.
#[test]
fn interrupted_calls(rt: HostRuntime) -> Result<(), Fail> {
    let table = "
        1/0 2/10 3/20: write width=10 interrupted=n => refused Interrupted, one m
        4/24 5/34 6/40 7/50 8/60 9/70 10/80 11/90 12/100 13/110 14/120 15/130: write width=10 interrupted=n => Interrupted, one m
        1/0 2/10 3/20: write width=10 idle=n => refused WriteZero, one m
        4/24 5/34 6/40 7/50 8/60 9/70 10/80 11/90 12/100 13/110 14/120 15/130: write width=10 idle=n => WriteZero, one m
    ";
    every_row(rt.alloc(), table)
}

// The writer isn't called.
#[test]
fn invalid_header(rt: HostRuntime) -> Result<(), Fail> {
    every_row(rt.alloc(), "0: write under=wrong => refused magic")
}

// Returns whether no empty packet is written after the writer failed, and the stream isn't called.
fn stays_failed(writer: &mut PcapWriter<Narrow>) -> bool {
    writer.get_mut().room = 1000;
    let is_refused = matches!(writer.write(1, 0, &[], 0), Err(PcapError::WriterFailed));
    is_refused && writer.get_ref().calls == 3
}

// Writes empty packets to a writer with space for one, and returns whether each call had the right result.
fn fits_one(writer: &mut PcapWriter<Narrow>) -> bool {
    let is_written = writer.write(1, 0, &[], 0).is_ok();
    let began = !writer.failed() && writer.get_ref().calls == 2;
    let is_refused = matches!(writer.write(1, 0, &[], 0), Err(PcapError::IoError(_)));
    is_written && began && is_refused && writer.failed()
}

fn fits_one_for_good(alloc: Global) -> bool {
    match PcapWriter::with_header(PcapHeader::default(), Narrow::new(alloc, 40, true)) {
        Ok(mut writer) => fits_one(&mut writer) && stays_failed(&mut writer),
        Err(_) => false,
    }
}

#[test]
fn empty_packet(rt: HostRuntime) {
    assert!(rt; fits_one_for_good(rt.alloc()));
}

// A writer with space for three bytes, and for one more after it failed; one without space; and calls that are interrupted or take nothing.
#[test]
fn told_writers(rt: HostRuntime) -> Result<(), Fail> {
    let table = "
        3: told_writer given=seven room=n => 2=2 0=0 flush=0 2=1 1=Other room= 1=1, seven 4
        3: told_writer given=seven room=n fails=0 => 2=2 0=0 flush=0 2=1 1=0 room= 1=1, seven 4
        0: told_writer room=n => flush=Other, one 0
        0: told_writer room=n fails=0 => flush=0, one 0
        1: told_writer interrupted=n => 1=Interrupted, one 0 | writes=n
        1: told_writer idle=n => 1=0, one 0 | writes=n
        1: told_writer interrupted=n => flush=Interrupted, one 0 | writes=n
    ";
    every_row(rt.alloc(), table)
}

/// Returns whether writes of so many of the given bytes have these results, and flushes. Each failed call is reported, and each write that
/// takes nothing.
pub fn writer_tells(output: &mut Narrow, given: &[u8], words: &str) -> bool {
    let mut told = Told::new(output);
    let mut is_so = true;
    let mut has_failed = false;
    for word in words.split_whitespace() {
        let (call, seen) = word.split_once('=').unwrap_or((word, ""));
        let is_write = !matches!(call, "0" | "flush" | "room");
        has_failed |= is_failure(seen) || seen == "0" && is_write;
        is_so &= acts(&mut told, given, call, seen) && told.failed() == has_failed;
    }
    let length = told.get_ref().out.len();
    is_so && told.into_inner().out.len() == length
}

// Returns whether a call has this result.
fn acts(told: &mut Told<&mut Narrow>, given: &[u8], call: &str, seen: &str) -> bool {
    match call.parse::<usize>() {
        Ok(n) => {
            let left = back(given, told.get_ref().out.len());
            is_taken(&told.write(front(left, n)), seen)
        }
        Err(_) if call == "flush" => is_done(&told.flush(), seen),
        // the writer has space for one byte again
        Err(_) => {
            told.get_mut().room = 1;
            call == "room" && seen.is_empty()
        }
    }
}

// Returns whether a flush succeeded, or failed with an error of this kind.
fn is_done(flushed: &io::Result<()>, seen: &str) -> bool {
    match flushed {
        Ok(()) => seen == "0",
        Err(error) => seen == name_of_kind(error.kind()),
    }
}
