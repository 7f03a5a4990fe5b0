//! Streams that report whether a read failed, and buffers that are filled from them.
//!
//! A word of a `told_reader` row is one read into a buffer of three bytes. `2/010200` says that the read takes two bytes, and that the
//! buffer has these three bytes after it. `Interrupted/030200` says that the read fails so. At `back/030200` the test lets the stream go
//! back behind its first byte, and the buffer has these three bytes.
//!
//! A word of a `fill` row is one call on a buffer that a stream fills:
//! - `step/5=5`: a step that asks for five bytes takes five. `step/9=Other` fails.
//! - `more/3=true`: the buffer takes three more bytes. It takes none in `more/1=false`, as the stream is at its end.
//! - `held=0001`: the buffer holds these bytes. `holds=65541`: it holds so many of the stream's first bytes.
//! - `clear=`: the test clears the buffer.
//! - `taken=5 reads=1 room=5`: the stream has given five bytes, has been called once, and was given a buffer of five bytes at most.
//! - `back=1`: the test lets the stream go back behind its first byte.

ghost use Rattle.std.specs.Prelude.{◌<◌};

use crate::calls::every_row;
use crate::names::{is_failure, is_taken, name_of};
use pcap_classic::ResultParsing;
use pcap_classic::stream::{Fill, Told};
use std::alloc::Global;
use std::io::Read;
use std::test::Fail;
use test_support::captures::front;
use test_support::readers::Halting;
use test_support::rows::are_digits;

// The stream gives three bytes, at most two in a read; its call 4 is interrupted; and then it gives two of them again.
#[test]
fn told_readers(rt: HostRuntime) -> Result<(), Fail> {
    let row =
        "2: told_reader given=123 step=n fails_at=4 kind=Interrupted => 2/010200 1/030200 0/030200 Interrupted/030200 back/030200 2/020300 | reads=5";
    every_row(rt.alloc(), row)
}

/// Returns whether reads of a stream have these results, and leave these bytes in a buffer of three. Each failed read is reported.
pub fn reader_tells(stream: &mut Halting, words: &str) -> bool {
    let mut told = Told::new(stream);
    let mut bytes = [0; 3];
    let mut is_so = true;
    let mut has_failed = false;
    for word in words.split_whitespace() {
        let (seen, digits) = word.split_once('/').unwrap_or((word, ""));
        has_failed |= is_failure(seen);
        is_so &= reads_as(&mut told, &mut bytes, seen);
        is_so &= are_digits(&bytes, digits) && told.failed() == has_failed;
    }
    let calls = told.get_ref().calls;
    is_so && told.into_inner().calls == calls
}

// Returns whether the next read has this result, or lets the stream give its bytes again, all but the first.
fn reads_as(told: &mut Told<&mut Halting>, bytes: &mut [u8; 3], seen: &str) -> bool {
    if seen == "back" {
        told.get_mut().taken = 1;
        return true;
    }
    is_taken(&told.read(bytes), seen)
}

// A step takes as many bytes as it is asked for, or as one read may take.
#[test]
fn steps(rt: HostRuntime) -> Result<(), Fail> {
    let row =
        "100000: fill given=large length=n step=n => step/5=5 reads=1 room=5 step/100000=65536 reads=2 room=65536 holds=65541 step/100000=34459 reads=3 room=65536 holds=100000 step/1=0";
    every_row(rt.alloc(), row)
}

#[test]
fn fills(rt: HostRuntime) -> Result<(), Fail> {
    // each read is offered at most the missing bytes
    let row =
        "1 2 9: fill step=n given=seven => held= more/3=true held=000102 more/2=true held=0001020304 taken=5 clear= held= more/2=true held=0506 clear= more/1=false held= | taken=7 room=3";
    every_row(rt.alloc(), row)
}

#[test]
fn fills_that_end(rt: HostRuntime) -> Result<(), Fail> {
    let table = "
        9: fill step=n given=seven length=2 => more/3=UnexpectedEof | reads=2
        9: fill step=n given=seven length=2 fails_at=2 kind=TimedOut => more/3=TimedOut | reads=2
    ";
    every_row(rt.alloc(), table)
}

// The first bytes are held after a step that failed, and the end is another kind of error. The buffer continues when its stream does.
#[test]
fn failed_steps(rt: HostRuntime) -> Result<(), Fail> {
    let row =
        "9: fill step=n given=seven length=2 fails_at=2 => step/9=2 step/9=Other held=0001 more/1=UnexpectedEof clear= back=1 more/1=true held=01";
    every_row(rt.alloc(), row)
}

/// Returns whether a buffer that is filled from this stream acts as these words say. It must report a failed read, but no early end.
pub fn fills_as(alloc: Global, stream: &mut Halting, words: &str) -> bool {
    let mut fill = Fill::new(alloc, Told::new(stream));
    let mut is_so = true;
    let mut has_failed = false;
    for word in words.split_whitespace() {
        let (call, told) = word.split_once('=').unwrap_or((word, ""));
        has_failed |= is_failure(told);
        is_so &= acts(&mut fill, call, told) && fill.failed() == has_failed;
    }
    let calls = fill.get_ref().calls;
    is_so && fill.into_inner().calls == calls
}

// Returns whether a call has this result.
fn acts(fill: &mut Fill<&mut Halting>, call: &str, told: &str) -> bool {
    let (name, n) = call.split_once('/').unwrap_or((call, told));
    match name {
        "held" => return are_digits(fill.held(), told),
        "clear" => {
            fill.clear();
            return told.is_empty();
        }
        _ => {}
    }
    match n.parse::<usize>() {
        Ok(n) if n > 0 => acts_by(fill, name, n, told),
        _ => false,
    }
}

fn acts_by(fill: &mut Fill<&mut Halting>, name: &str, n: usize, told: &str) -> bool
    requires { 0 < n }
{
    match name {
        "more" => is_more(&fill.more(n), told),
        "step" => is_step(&fill.step(n), told),
        "taken" => fill.get_ref().taken == n,
        "reads" => fill.get_ref().calls == n,
        "room" => fill.get_ref().most_room == n,
        // the buffer holds the first bytes of the stream
        "holds" => fill.held() == front(fill.get_ref().bytes.as_slice(), n),
        // the stream gives its bytes from this one on again
        "back" => {
            fill.get_mut().taken = n;
            true
        }
        _ => false,
    }
}

fn is_more(outcome: &ResultParsing<bool>, told: &str) -> bool {
    match outcome {
        Ok(true) => told == "true",
        Ok(false) => told == "false",
        Err(error) => told == name_of(error),
    }
}

fn is_step(outcome: &ResultParsing<usize>, told: &str) -> bool {
    match outcome {
        Ok(taken) => matches!(told.parse::<usize>(), Ok(n) if n == *taken),
        Err(error) => told == name_of(error),
    }
}
