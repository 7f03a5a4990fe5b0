//! Writers that fail, and those that take few bytes in a call. `calls` describes the rows.

use crate::calls::{Call, parsed, put};
use pcap_core::{Endianness, PcapError, ResultParsing};
use pcap_written::PcapNgWriter;
use std::alloc::Global;
use std::io::ErrorKind;
use std::test::*;
use test_support::captures::{back, front};
use test_support::rows::{are_digits, bytes};
use test_support::writers::Narrow;

// The header of a section, 28 bytes, and the blocks after it: 20, 56, 36 and 20 bytes.
const HEADER: &str = "0a0d0d0a 0000001c 1a2b3c4d 0001 0000 ffffffffffffffff 0000001c";

// The calls that write these blocks, and their bytes. `parts interface 2 0` is a packet of two bytes for interface 0.
const ROWS: &str = "
    interface plain 0 0 => 00000001 00000014 0001 0000 00000000 00000014
    enhanced comment 1 0 => 00000006 00000038 00000000 00000001 00000002 00000002 00000003 61620000 0001 0002 6f6b0000 0001 0001 61000000 00000000 00000038
    parts interface 2 0 => 00000006 00000024 00000000 04050607 08090a0b 00000002 0c0d0e0f 01020000 00000024
    raw interface/big/0001000000040000 0 0 => 00000001 00000014 0001 0000 00040000 00000014
";

// Calls that are refused once the stream has failed. Some of them would be refused for another reason before.
const AFTERWARDS: &str = "
    interface plain 0 0 => refused
    enhanced comment 1 0 => refused
    parts interface 2 0 => refused
    parts interface 2 9 => refused
    raw interface/big/0001000000040000 0 0 => refused
    raw section/little/4d3c2b1a 0 0 => refused
    unknown type 0 1 => refused
";

type Row<'a> = (Call<'a>, &'a str);

// Returns the calls and answers of rows.
fn rows_of<'a>(alloc: Global, table: &'a str) -> Result<Vec<Row<'a>>, Fail> {
    let mut rows = Vec::new(alloc);
    for row in table.trim().lines() {
        let (call, number, answer) = parsed(row, &[1, 2], "a")?;
        let number = number.parse::<u32>().ok().ok_or("a row with no number")?;
        rows.push((Call { number, ..call }, answer))?;
    }
    Ok(rows)
}

// What is written, in turn and after a failure, and the bytes of all that is written.
#[derive(Clone, Copy)]
struct Script<'a> {
    rows: &'a [Row<'a>],
    afterwards: &'a [Row<'a>],
    whole: &'a [u8],
}

// How a call ends.
#[derive(Clone, Copy, PartialEq)]
enum Ending {
    Written,
    Failed,
    Refused,
    Other,
}

fn ending_of(told: &ResultParsing<()>) -> Ending {
    match told {
        Ok(_) => Ending::Written,
        Err(PcapError::IoError(_)) => Ending::Failed,
        Err(PcapError::WriterFailed) => Ending::Refused,
        Err(_) => Ending::Other,
    }
}

fn told(alloc: Global, writer: &mut PcapNgWriter<&mut Narrow>, call: Call<'_>) -> Ending {
    ending_of(&put(alloc, writer, call))
}

impl Script<'_> {
    // Returns whether each of the calls is refused after the stream has failed, which isn't called again.
    fn is_over(self, alloc: Global, writer: &mut PcapNgWriter<&mut Narrow>) -> bool {
        let calls = writer.get_ref().calls;
        let mut is_refused = true;
        for (call, _) in self.afterwards {
            is_refused &= told(alloc, writer, *call) == Ending::Refused;
        }
        is_refused && writer.failed() && writer.get_ref().calls == calls
    }

    // Returns whether the rows are written up to the one that fails, which leaves the interfaces as they were.
    fn fails_later(self, alloc: Global, writer: &mut PcapNgWriter<&mut Narrow>) -> bool {
        for (call, answer) in self.rows {
            let (before, interfaces) = (writer.get_ref().out.len(), writer.interfaces());
            let ending = told(alloc, writer, *call);
            let is_whole = are_digits(back(writer.get_ref().out.as_slice(), before), *answer);
            if ending != Ending::Written {
                return ending == Ending::Failed
                    && !is_whole
                    && writer.interfaces() == interfaces
                    && self.is_over(alloc, writer);
            }
            if !is_whole || writer.failed() {
                return false;
            }
        }
        false
    }

    // Returns whether one of the calls fails, the first if less than the header is written.
    fn fails_once(self, alloc: Global, output: &mut Narrow, gone: usize) -> bool {
        match PcapNgWriter::with_endianness(alloc, Endianness::Big, output) {
            Ok(mut writer) => {
                are_digits(writer.get_ref().out.as_slice(), HEADER)
                    && !writer.failed()
                    && self.fails_later(alloc, &mut writer)
            }
            Err(PcapError::IoError(_)) => gone < 28,
            Err(_) => false,
        }
    }

    // Returns whether a writer fails once, after it wrote the first `gone` bytes.
    fn leaves(self, alloc: Global, mut output: Narrow, gone: usize) -> bool {
        let fails = self.fails_once(alloc, &mut output, gone);
        fails && output.out.as_slice() == front(self.whole, gone)
    }

    // Writes all rows. The writer must not have failed then.
    fn write(self, alloc: Global, output: &mut Narrow) -> ResultParsing<()> {
        let mut writer = PcapNgWriter::with_endianness(alloc, Endianness::Big, output)?;
        for (call, _) in self.rows {
            put(alloc, &mut writer, *call)?;
        }
        if writer.failed() {
            return Err(PcapError::WriterFailed);
        }
        Ok(())
    }

    // Returns whether the interruption of this call of the stream is reported as one.
    fn tells_interrupted(self, alloc: Global, call: u64) -> bool {
        match self.write(alloc, &mut Narrow::halting(alloc, call, false)) {
            Err(PcapError::IoError(error)) => error.kind() == ErrorKind::Interrupted,
            _ => false,
        }
    }

    // Returns whether all rows are written if a call of the stream takes at most `step` bytes.
    fn goes_out_by(self, alloc: Global, step: usize) -> bool {
        let mut output = Narrow::new(alloc, self.whole.len(), true);
        output.step = step;
        let is_written = self.write(alloc, &mut output).is_ok();
        is_written && output.out.as_slice() == self.whole
    }
}

// Returns the bytes of the header and of all rows.
fn whole(alloc: Global, rows: &[Row<'_>]) -> Result<Vec<u8>, Fail> {
    let mut whole = bytes(alloc, HEADER)?;
    for (_, answer) in rows {
        whole.extend_from_slice(bytes(alloc, *answer)?.as_slice())?;
    }
    Ok(whole)
}

// Runs a check of the whole script.
fn check<F: Fn(Global, Script<'_>) -> Result<(), Fail>>(alloc: Global, call: F) -> Result<(), Fail>
    requires { F.IsAlwaysCallable call }
{
    let rows = rows_of(alloc, ROWS)?;
    let afterwards = rows_of(alloc, AFTERWARDS)?;
    let whole = whole(alloc, rows.as_slice())?;
    let script = Script {
        rows: rows.as_slice(),
        afterwards: afterwards.as_slice(),
        whole: whole.as_slice(),
    };
    call(alloc, script)
}

// Returns a failure that names a number if this doesn't hold.
fn named(holds: bool, number: usize) -> Result<(), Fail> {
    if holds {
        return Ok(());
    }
    Err(Fail::new(format_args!("at {number}")))
}

fn in_every_room(alloc: Global, script: Script<'_>) -> Result<(), Fail> {
    for fails in [false, true] {
        for room in 0..160usize {
            let output = Narrow::new(alloc, room, fails);
            named(script.leaves(alloc, output, room), room)?;
        }
    }
    Ok(())
}

#[test]
fn every_room(rt: HostRuntime) -> Result<(), Fail> {
    check(rt.alloc(), in_every_room)
}

// How many bytes were written before each call of a stream that takes at most ten bytes in a call.
const GONE: &str = "0 10 20 28 38 48 58 68 78 88 98 104 114 124 132 134 140 150";

// Each of these checks each call: one that halts, and one that is interrupted.

fn at_halted_calls(alloc: Global, script: Script<'_>) -> Result<(), Fail> {
    let mut call = 0u64;
    for gone in GONE.split(' ') {
        call = call.saturating_add(1);
        let gone = gone.parse::<usize>().ok().ok_or("no number")?;
        for is_idle in [false, true] {
            let output = Narrow::halting(alloc, call, is_idle);
            named(script.leaves(alloc, output, gone), gone)?;
        }
    }
    Ok(())
}

fn at_interrupted_calls(alloc: Global, script: Script<'_>) -> Result<(), Fail> {
    for call in 1..19u32 {
        named(script.tells_interrupted(alloc, call as u64), call as usize)?;
    }
    Ok(())
}

#[test]
fn halted_calls(rt: HostRuntime) -> Result<(), Fail> {
    check(rt.alloc(), at_halted_calls)
}

#[test]
fn interrupted_calls(rt: HostRuntime) -> Result<(), Fail> {
    check(rt.alloc(), at_interrupted_calls)
}

fn by_every_step(alloc: Global, script: Script<'_>) -> Result<(), Fail> {
    for step in 1..58usize {
        named(script.goes_out_by(alloc, step), step)?;
    }
    Ok(())
}

#[test]
fn short_writes(rt: HostRuntime) -> Result<(), Fail> {
    check(rt.alloc(), by_every_step)
}
