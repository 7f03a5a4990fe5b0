//! Reads and writes that are interrupted, once or several times in a row. `runs` describes the rows of the tables of runs.

use crate::captures::bytes_of;
use crate::runs::{every_run, every_run_below};
use crate::streams::kind_of;
use capcopy_run::{WordList, run_words};
use pcap_program::Uninterrupted;
use std::alloc::Global;
use std::io;
use std::io::{ErrorKind, Read};
use std::test::*;
use test_support::readers::Halting;
use test_support::rows::same;

/// One, two and five interrupted reads, from each of the first eight on. `#` is the first of these reads, or 0 if no read is interrupted.
const REPEATED_READS: &str = "
    list | big | room=40 step=20 fails_at=# fails_for=1 Interrupted repeated => 1 1335958313.152630000 98/98; => 0
    list | big | room=40 step=20 fails_at=# fails_for=2 Interrupted repeated => 1 1335958313.152630000 98/98; => 0
    list | big | room=40 step=20 fails_at=# fails_for=5 Interrupted repeated => 1 1335958313.152630000 98/98; => 0
    copy | big | room=40 step=20 fails_at=# fails_for=1 Interrupted repeated => big => 0
    copy | big | room=40 step=20 fails_at=# fails_for=2 Interrupted repeated => big => 0
    copy | big | room=40 step=20 fails_at=# fails_for=5 Interrupted repeated => big => 0
    blocks | sections | room=40 step=20 fails_at=# fails_for=1 Interrupted repeated => section big 1.0;1 interface 20 ok;2 section 28 ok;3 interface 20 ok; => 0
    blocks | sections | room=40 step=20 fails_at=# fails_for=2 Interrupted repeated => section big 1.0;1 interface 20 ok;2 section 28 ok;3 interface 20 ok; => 0
    blocks | sections | room=40 step=20 fails_at=# fails_for=5 Interrupted repeated => section big 1.0;1 interface 20 ok;2 section 28 ok;3 interface 20 ok; => 0
";

#[test]
fn repeated_reads(rt: HostRuntime) -> Result<(), Fail> {
    every_run_below(rt.alloc(), REPEATED_READS, 9)
}

// Returns whether the word `list` over the bare big-endian capture, where this many reads are interrupted, succeeds and writes its line.
fn repeats_words(alloc: Global, fails_for: usize) -> Result<bool, Fail> {
    let mut stream = Halting::new(alloc, bytes_of(alloc, "big")?.as_slice(), 20)?;
    stream.fails_at = 3;
    stream.fails_for = fails_for;
    stream.kind = ErrorKind::Interrupted;
    let words = [b"list".as_slice()];
    let mut output = Vec::new(alloc);
    let exit = run_words(alloc, &WordList::new(&words), stream, &mut output);
    Ok(exit.status() == 0 && output.as_slice() == b"1 1335958313.152630000 98/98\n".as_slice())
}

#[test]
fn repeated_reads_of_words(rt: HostRuntime) -> Result<(), Fail> {
    assert!(rt; repeats_words(rt.alloc(), 1)? && repeats_words(rt.alloc(), 5)?);
    Ok(())
}

// A stream that fails with each of the kinds that these words name, and then gives one byte, 7, at each call.
#[derive(Drop)]
struct Failing<'a> {
    kinds: &'a str,
    calls: usize,
}

impl Read for Failing<'_> {
    fn read(&mut self, buf: &mut [u8]) -> io::Result<usize> {
        self.calls = self.calls.saturating_add(1);
        let (kind, rest) = self.kinds.split_once(' ').unwrap_or((self.kinds, ""));
        self.kinds = rest;
        if let Some(kind) = kind_of(kind) {
            return Err(io::Error::from(kind));
        }
        if buf.is_empty() {
            return Ok(0);
        }
        buf[0] = 7;
        Ok(1)
    }
}

/// The kinds with which a stream fails in turn. Then what a read of one byte with repeated reads gives: the kind of its error if it fails,
/// the byte, which a failed read leaves as it was, and how many calls of the stream it makes.
const KINDS: &str = "
    => 7 after 1
    Interrupted => 7 after 2
    Interrupted Interrupted Interrupted Interrupted Interrupted Interrupted Interrupted => 7 after 8
    TimedOut => TimedOut 0 after 1
    WouldBlock => WouldBlock 0 after 1
    UnexpectedEof => UnexpectedEof 0 after 1
    Interrupted BrokenPipe => BrokenPipe 0 after 2
    Interrupted Interrupted WriteZero => WriteZero 0 after 3
";

// Formats what the read gives, in the words of a row.
fn told_read(alloc: Global, kinds: &str) -> Result<String, Fail> {
    let mut stream = Failing { kinds, calls: 0 };
    let mut byte = [0];
    let outcome = Uninterrupted::new(&mut stream).read(&mut byte);
    let (byte, calls) = (byte[0], stream.calls);
    Ok(match outcome {
        Ok(_) => format!(in alloc; "{byte} after {calls}")?,
        Err(error) => format!(in alloc; "{:?} {byte} after {calls}", error.kind())?,
    })
}

#[test]
fn told_kinds(rt: HostRuntime) -> Result<(), Fail> {
    for row in KINDS.trim().lines() {
        let (kinds, shown) = row.split_once("=>").ok_or("a row with no arrow")?;
        same(told_read(rt.alloc(), kinds.trim())?.as_str(), shown.trim())?;
    }
    Ok(())
}

/// Runs whose fourth read fails otherwise.
const FAILED_READS: &str = "
    list | big | room=40 step=20 fails_at=4 TimedOut repeated => => 3 TimedOut capcopy: input or output failed or ended early
    list | big | room=40 step=20 fails_at=4 WouldBlock repeated => => 3 WouldBlock capcopy: input or output failed or ended early
    list | big | room=40 step=20 fails_at=4 Other repeated => => 3 Other capcopy: input or output failed or ended early
    copy | big | room=40 step=20 fails_at=4 TimedOut repeated => big ..24 => 3 TimedOut capcopy: input or output failed or ended early
    copy | big | room=40 step=20 fails_at=4 WouldBlock repeated => big ..24 => 3 WouldBlock capcopy: input or output failed or ended early
    copy | big | room=40 step=20 fails_at=4 Other repeated => big ..24 => 3 Other capcopy: input or output failed or ended early
";

#[test]
fn failed_reads(rt: HostRuntime) -> Result<(), Fail> {
    every_run(rt.alloc(), FAILED_READS)
}

/// Outputs that take ten bytes in a call, and of which one call is interrupted or takes nothing. The run must end at that call. The program
/// flushes the output before the first packet, and after the section.
const HALTED_WRITES: &str = "
    list | big | room=40 halts_at=2 Interrupted => 1 1335958313.152630000 98/98; ..0 => 3 Interrupted capcopy: input or output failed or ended early
    list | big | room=40 halts_at=2 WriteZero => 1 1335958313.152630000 98/98; ..0 => 3 WriteZero capcopy: input or output failed or ended early
    list | big | room=40 halts_at=3 Interrupted => 1 1335958313.152630000 98/98; ..10 => 3 Interrupted capcopy: input or output failed or ended early
    list | big | room=40 halts_at=3 WriteZero => 1 1335958313.152630000 98/98; ..10 => 3 WriteZero capcopy: input or output failed or ended early
    list | big | room=40 halts_at=4 Interrupted => 1 1335958313.152630000 98/98; ..20 => 3 Interrupted capcopy: input or output failed or ended early
    list | big | room=40 halts_at=4 WriteZero => 1 1335958313.152630000 98/98; ..20 => 3 WriteZero capcopy: input or output failed or ended early
    blocks | sections | room=40 halts_at=1 Interrupted => section big 1.0;1 interface 20 ok;2 section 28 ok;3 interface 20 ok; ..0 => 3 Interrupted capcopy: input or output failed or ended early
    blocks | sections | room=40 halts_at=1 WriteZero => section big 1.0;1 interface 20 ok;2 section 28 ok;3 interface 20 ok; ..0 => 3 WriteZero capcopy: input or output failed or ended early
    blocks | sections | room=40 halts_at=2 Interrupted => section big 1.0;1 interface 20 ok;2 section 28 ok;3 interface 20 ok; ..10 => 3 Interrupted capcopy: input or output failed or ended early
    blocks | sections | room=40 halts_at=2 WriteZero => section big 1.0;1 interface 20 ok;2 section 28 ok;3 interface 20 ok; ..10 => 3 WriteZero capcopy: input or output failed or ended early
    blocks | sections | room=40 halts_at=4 Interrupted => section big 1.0;1 interface 20 ok;2 section 28 ok;3 interface 20 ok; ..16 => 3 Interrupted capcopy: input or output failed or ended early
    blocks | sections | room=40 halts_at=4 WriteZero => section big 1.0;1 interface 20 ok;2 section 28 ok;3 interface 20 ok; ..16 => 3 WriteZero capcopy: input or output failed or ended early
";

#[test]
fn halted_writes(rt: HostRuntime) -> Result<(), Fail> {
    every_run(rt.alloc(), HALTED_WRITES)
}

/// The same for calls that flush. A program that never flushes passes the first two rows, since it writes in those calls. In the third row
/// it makes fewer calls, and in the fourth it writes more bytes before that call.
const INTERRUPTED_FLUSHES: &str = "
    list | big | room=40 halts_at=1 Interrupted => => 3 Interrupted capcopy: input or output failed or ended early
    blocks | sections | room=40 halts_at=3 Interrupted => section big 1.0; => 3 Interrupted capcopy: input or output failed or ended early
    list | big | room=40 halts_at=5 Interrupted => 1 1335958313.152630000 98/98; => 3 Interrupted capcopy: input or output failed or ended early
    blocks | sections | room=40 halts_at=6 Interrupted => section big 1.0;1 interface 20 ok; => 3 Interrupted capcopy: input or output failed or ended early
";

#[test]
fn interrupted_flushes(rt: HostRuntime) -> Result<(), Fail> {
    every_run(rt.alloc(), INTERRUPTED_FLUSHES)
}
