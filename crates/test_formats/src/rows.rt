//! Rows of two logs that change the size of their samples, from streams that give few bytes at once, end or fail.

use crate::samples::{Head, LogError, LogFault, SampleReader, SamplesOf, take_next};
use pcap_core::{PcapError, ResultParsing};
use pcap_items::stream::{Fill, HasHead, Held, Told};
use std::alloc::{AllocError, Global};
use std::io::ErrorKind;
use std::test::Fail;
use test_support::captures::{back, front};
use test_support::readers::Halting;
use test_support::rows::{are_digits, bytes};

/// A log and its items.
#[derive(Clone, Copy)]
pub(crate) struct Log<'a> {
    /// The digits of its bytes.
    pub digits: &'a str,
    /// A row for each item: how many bytes of the log are taken up to its end, its kind, its number, and the digits of the bytes after
    /// its head.
    pub items: &'a str,
}

// A size of two bytes, a sample of channel 7, a size of 0, a sample of channel 8, a size of three bytes, and a sample of channel 256.
pub(crate) const SHORT: Log<'static> = Log {
    digits: "0001 0002 0002 0007 aabb 0001 0000 0002 0008 0001 0003 0002 0100 040506",
    items: "
        4 size 2
        10 sample 7 aabb
        14 size 0
        18 sample 8
        22 size 3
        29 sample 256 040506",
};

// A size of eight bytes, which is the most with heads of four; a sample of channel 1; a size of nine; a sample of channel 70000 after a
// head of six; a size of one, in a head of six too; and a sample of channel 5 after a head of four.
pub(crate) const LONG: Log<'static> = Log {
    digits: "0001 0008 0002 0001 0102030405060708 0001 0009 0002 00011170 090807060504030201 0001 00000001 0002 0005 77",
    items: "
        4 size 8
        16 sample 1 0102030405060708
        20 size 9
        35 sample 70000 090807060504030201
        41 size 1
        46 sample 5 77",
};

// Returns the number that begins a row.
fn number(row: &str) -> usize {
    let word = row.split_whitespace().next().unwrap_or("");
    word.parse::<usize>().unwrap_or(usize::MAX)
}

// Returns whether this is the head in the row of an item.
fn is_head(row: &str, head: Head) -> bool {
    let (kind, number) = match head {
        Head::Size(size) => ("size", u32::from(size)),
        Head::Sample(channel) => ("sample", channel),
    };
    let mut words = row.split_whitespace().skip(1);
    words.next() == Some(kind) && words.next().unwrap_or("").parse::<u32>().ok() == Some(number)
}

// Returns whether these are the bytes after the head in the row of an item.
fn are_bytes(row: &str, bytes: &[u8]) -> bool {
    are_digits(bytes, row.split_whitespace().nth(3).unwrap_or(""))
}

/// Returns whether this is the item of a row.
pub(crate) fn is_item(row: &str, head: Head, bytes: &[u8]) -> bool {
    is_head(row, head) && are_bytes(row, bytes)
}

/// Returns how a stream ended.
pub(crate) fn cause(error: &PcapError) -> &'static str {
    match error {
        PcapError::IoError(error) if error.kind() == ErrorKind::UnexpectedEof => "early end",
        PcapError::IoError(error) if error.kind() == ErrorKind::TimedOut => "failed read",
        _ => "another error",
    }
}

// Returns why a reader gave no item.
fn fault(error: &LogError) -> &'static str {
    match error {
        LogError::Refused(LogFault::UnknownKind) => "unknown kind",
        LogError::Refused(LogFault::SizeTooLarge) => "size too large",
        LogError::Stopped(error) => cause(error),
    }
}

// Takes the next item, and returns how the log ended if there is none.
fn end_of(reader: &mut SampleReader<Halting>) -> &'static str {
    match &reader.next_head() {
        None => "end",
        Some(Ok(_)) => "an item",
        Some(Err(error)) => fault(error),
    }
}

// Returns whether the reader gives the head of this row next, and has taken the item.
fn gives(reader: &mut SampleReader<Halting>, row: &str) -> bool {
    let is_so = match &reader.next_head() {
        Some(Ok(head)) => is_head(row, *head),
        _ => false,
    };
    is_so && reader.get_ref().taken == number(row) && !reader.failed()
}

// Returns whether the log ends in this way after `taken` bytes, and the reader gives nothing more.
fn ends(reader: &mut SampleReader<Halting>, end: &str, taken: usize) -> bool {
    let is_last = end_of(reader) == end && end_of(reader) == "end" && reader.bytes().is_empty();
    let is_failed = reader.failed() == (end == "failed read");
    is_last && is_failed && reader.get_ref().taken == taken
}

// Returns whether the reader gives the items of these rows that end within `taken` bytes, and then ends in this way.
fn gives_all(reader: &mut SampleReader<Halting>, items: &str, taken: usize, end: &str) -> bool {
    let mut is_so = true;
    for row in items.trim().lines() {
        if number(row) <= taken {
            is_so &= gives(reader, row) && are_bytes(row, reader.bytes());
        }
    }
    is_so && ends(reader, end, taken)
}

// A stream of a log, and how a reader of it ends after the items.
#[derive(Clone, Copy)]
struct Case<'a> {
    log: Log<'a>,
    // how many bytes of the log the stream has
    length: usize,
    // the most bytes of a read
    step: usize,
    // the read that fails, counted from 1, or 0 if none does
    fails_at: usize,
    // how many bytes are taken
    taken: usize,
    end: &'a str,
}

fn is_right(alloc: Global, case: Case<'_>) -> Result<bool, Fail> {
    let whole = bytes(alloc, case.log.digits)?;
    let mut stream = Halting::new(alloc, front(whole.as_slice(), case.length), case.step)?;
    stream.fails_at = case.fails_at;
    stream.kind = ErrorKind::TimedOut;
    let mut reader = SampleReader::new(alloc, stream);
    let is_so = gives_all(&mut reader, case.log.items, case.taken, case.end);
    Ok(is_so && (case.fails_at == 0 || reader.get_ref().calls == case.fails_at))
}

// Returns whether no item of a log goes on after `end` bytes.
fn is_between(items: &str, end: usize) -> bool {
    let mut is_so = end == 0;
    for row in items.trim().lines() {
        is_so |= number(row) == end;
    }
    is_so
}

// Returns whether a reader of the first bytes of a log gives the items in them, and reports a torn one.
fn reads(alloc: Global, log: Log<'_>, length: usize, step: usize) -> Result<bool, Fail> {
    let end = if is_between(log.items, length) {
        "end"
    } else {
        "early end"
    };
    let case = Case {
        log,
        length,
        step,
        fails_at: 0,
        taken: length,
        end,
    };
    is_right(alloc, case)
}

// Checks whole logs, and logs that are truncated at each byte.
#[test]
fn read_logs(rt: HostRuntime) -> Result<(), Fail> {
    for step in [1, 2, 3, 7, 46] {
        for length in 0..47 {
            let is_short_read = reads(rt.alloc(), SHORT, length.min(29), step)?;
            let is_read = is_short_read && reads(rt.alloc(), LONG, length, step)?;
            assert!(rt; is_read, "{length} by {step}");
        }
    }
    Ok(())
}

// Checks that a call holds for each row of a table. A table must have a row.
fn every<F: Fn(Global, &str) -> Result<bool, Fail>>(
    alloc: Global,
    table: &str,
    call: F,
) -> Result<(), Fail>
    requires { F.IsAlwaysCallable call }
{
    if table.trim().is_empty() {
        return Err(Fail::new("a table without rows"));
    }
    for row in table.trim().lines() {
        if !call(alloc, row.trim())? {
            return Err(Fail::new(row));
        }
    }
    Ok(())
}

// A log with a head that is refused, and bytes after that; the item before that head; how many bytes are taken, and the fault. The number
// in the row with 0005 would be valid without its upper half.
const REFUSED: &str = "
    0001 0002 0000 0009 0002 0007 0102 => 4 size 2 => 8 unknown kind
    0001 0002 0003 0009 0002 0007 0102 => 4 size 2 => 8 unknown kind
    0001 0002 0102 0009 0002 0007 0102 => 4 size 2 => 8 unknown kind
    0001 0002 0001 03e9 0002 0007 0102 => 4 size 2 => 8 size too large
    0001 0002 0001 ffff 0002 0007 0102 => 4 size 2 => 8 size too large
    0001 0009 0003 00000000 00 => 4 size 9 => 10 unknown kind
    0001 0009 0001 00010005 00 => 4 size 9 => 10 size too large
    0001 0009 0001 000003e9 00 => 4 size 9 => 10 size too large";

// Returns whether the log of this row gives its item and is refused, and no byte after that is taken.
fn refuses(alloc: Global, row: &str) -> Result<bool, Fail> {
    let (digits, told) = row.split_once("=>").unwrap_or(("", ""));
    let (items, end) = told.split_once("=>").unwrap_or(("", ""));
    let (taken, end) = end.trim().split_once(' ').unwrap_or(("", ""));
    let case = Case {
        log: Log { digits, items },
        length: 99,
        step: 9,
        fails_at: 0,
        taken: number(taken),
        end,
    };
    is_right(alloc, case)
}

#[test]
fn refused_heads(rt: HostRuntime) -> Result<(), Fail> {
    every(rt.alloc(), REFUSED, refuses)
}

// The read of the short log that fails, with two bytes a read, and how many bytes were taken before it.
const FAILED: &str = "
    1 0
    2 2
    3 4
    5 8
    6 10
    7 12
    8 14
    10 18
    12 22
    15 28
    16 29";

// Returns whether the items in the bytes before that read come before its failure, and nothing after it.
fn fails(alloc: Global, row: &str) -> Result<bool, Fail> {
    let (fails_at, taken) = row.split_once(' ').unwrap_or(("", ""));
    let case = Case {
        log: SHORT,
        length: 29,
        step: 2,
        fails_at: number(fails_at),
        taken: number(taken),
        end: "failed read",
    };
    is_right(alloc, case)
}

#[test]
fn failed_reads(rt: HostRuntime) -> Result<(), Fail> {
    every(rt.alloc(), FAILED, fails)
}

// Returns whether a reader gives a size, and then a sample of 1000 bytes.
fn gives_largest(alloc: Global) -> Result<bool, AllocError> {
    let head = [0, 1, 3, 0xe8, 0, 2, 0, 0, 0, 1];
    let mut stream = Halting::new(alloc, &head, 300)?;
    stream.bytes.resize(1010, 6)?;
    let mut reader = SampleReader::new(alloc, stream);
    let are_heads = gives(&mut reader, "4 size 1000") && gives(&mut reader, "1010 sample 1");
    let is_lent = reader.bytes().len() == 1000 && reader.bytes().iter().all(|byte| *byte == 6);
    Ok(are_heads && is_lent && ends(&mut reader, "end", 1010))
}

#[test]
fn largest_samples(rt: HostRuntime) -> Result<(), Fail> {
    assert!(rt; gives_largest(rt.alloc())?);
    Ok(())
}

// The ends of logs whose items a buffer holds under one size, although an item sets another: the caller doesn't pass that. Each ends inside
// an item.
const UNDER_THREE: Log<'static> = Log {
    digits: "0002 0005 070809 0001 0001 0002 0005 04",
    items: "
        7 sample 5 070809
        11 size 1",
};

const UNDER_NINE: Log<'static> = Log {
    digits: "0002 00011170 090807060504030201 0001 00000001 0002 0005 77",
    items: "
        15 sample 70000 090807060504030201
        21 size 1",
};

// Holds the next item, and returns its head.
#[tactic(auto, using(crate::proofs::HeadedSamples::samples_lawful))]
fn fill_next(
    samples: SamplesOf,
    fill: &mut Fill<Halting>,
) -> ResultParsing<Option<Result<Head, LogFault>>> {
    fill.clear();
    if fill.failed() {
        return Ok(None);
    }
    fill.item(&samples)
}

// Returns whether the item of this row is held next, with its head.
fn holds(samples: SamplesOf, fill: &mut Fill<Halting>, row: &str, text: &[u8]) -> bool {
    let is_so = match &fill_next(samples, fill) {
        Ok(Some(Ok(head))) => is_head(row, *head),
        _ => false,
    };
    is_so && fill.held() == text && are_bytes(row, back(text, samples.head()))
}

// Returns whether an item is torn.
fn is_torn(samples: SamplesOf, fill: &mut Fill<Halting>) -> bool {
    let is_so = match &fill_next(samples, fill) {
        Err(error) => cause(error) == "early end",
        Ok(_) => false,
    };
    is_so && !fill.failed()
}

// Returns whether the items of a log are held in turn, before an early end, and no read offers more space than `most`.
fn fills(alloc: Global, samples: SamplesOf, log: Log<'_>, most: usize) -> Result<bool, Fail> {
    let whole = bytes(alloc, log.digits)?;
    let stream = Halting::new(alloc, whole.as_slice(), 4)?;
    let mut fill = Fill::new(alloc, Told::new(stream));
    let mut is_so = true;
    let mut start = 0;
    for row in log.items.trim().lines() {
        let text = back(front(whole.as_slice(), number(row)), start);
        is_so &= holds(samples, &mut fill, row, text);
        start = number(row);
    }
    Ok(is_so && is_torn(samples, &mut fill) && fill.get_ref().most_room == most)
}

#[test]
fn filled_under_a_size(rt: HostRuntime) -> Result<(), Fail> {
    let (three, nine) = (SamplesOf { size: 3 }, SamplesOf { size: 9 });
    let are_heads = three.head() == 4 && nine.head() == 6;
    let is_filled = are_heads && fills(rt.alloc(), three, UNDER_THREE, 4)?;
    assert!(rt; is_filled && fills(rt.alloc(), nine, UNDER_NINE, 9)?);
    Ok(())
}

// The size of samples, a log, how many bytes its first item takes, and that item. The last two rows have a size that isn't the log's, so
// its heads are read differently.
const TAKEN: &str = "
    0: 0001 0002 0002 0007 aabb 0001 0000 0002 0008 0001 0003 0002 0100 040506 => 4 size 2
    2: 0002 0007 aabb 0001 0000 0002 0008 0001 0003 0002 0100 040506 => 6 sample 7 aabb
    0: 0002 0007 aabb 0001 0000 0002 0008 0001 0003 0002 0100 040506 => 4 sample 7
    3: 0002 0007 aabb 0001 0000 0002 0008 0001 0003 0002 0100 040506 => 7 sample 7 aabb00
    2: 0001 0000 0002 0008 0001 0003 0002 0100 040506 => 4 size 0
    0: 0002 0008 0001 0003 0002 0100 040506 => 4 sample 8
    3: 0002 0100 040506 => 7 sample 256 040506
    3: => 0 end
    8: 0002 0001 0102030405060708 0001 0009 0002 00011170 090807060504030201 0001 00000001 0002 0005 77 => 12 sample 1 0102030405060708
    8: 0001 0009 0002 00011170 090807060504030201 0001 00000001 0002 0005 77 => 4 size 9
    9: 0002 00011170 090807060504030201 0001 00000001 0002 0005 77 => 15 sample 70000 090807060504030201
    9: 0001 00000001 0002 0005 77 => 6 size 1
    1: 0002 0005 77 => 5 sample 5 77
    3: 0002 00011170 090807060504030201 0001 00000001 0002 0005 77 => 7 sample 1 117009
    8: 0001 00000001 0002 0005 77 => 4 size 0";

// Returns whether the item of this row is taken, and nothing is held then.
fn takes(alloc: Global, row: &str) -> Result<bool, Fail> {
    let (size, log) = row.split_once(':').unwrap_or(("", ""));
    let (digits, item) = log.split_once("=>").unwrap_or(("", ""));
    let size = size.parse::<u16>().unwrap_or(u16::MAX);
    let whole = bytes(alloc, digits)?;
    let mut stream = Halting::new(alloc, whole.as_slice(), 3)?;
    Ok(takes_next(alloc, size, &mut stream, item.trim()) && stream.taken == number(item))
}

// Returns whether this item is taken, or the end is found.
fn takes_next(alloc: Global, size: u16, stream: &mut Halting, item: &str) -> bool {
    let mut has_failed = false;
    let mut held = Held::new(alloc);
    let is_so = match &take_next(alloc, size, stream, &mut has_failed, &mut held) {
        Ok(Some((head, bytes))) => is_head(item, *head) && are_bytes(item, bytes.as_slice()),
        Ok(None) => item == "0 end",
        Err(_) => false,
    };
    is_so && !has_failed && held.as_slice().is_empty()
}

#[test]
fn taken_items(rt: HostRuntime) -> Result<(), Fail> {
    every(rt.alloc(), TAKEN, takes)
}
