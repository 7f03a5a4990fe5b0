//! Rows of logs in a slice, parsed by the runs that serve every format.

use crate::lent::parse_log;
use crate::rows::{LONG, Log, SHORT, is_item};
use crate::samples::{LogFault, SamplesOf};
use pcap_items::run::Ended;
use std::alloc::Global;
use std::test::Fail;
use test_support::rows::{bytes, every_row};

// Returns whether a run over the whole log gives its six items, and samples have this size then.
fn is_whole(alloc: Global, log: Log<'_>, size: u16) -> Result<bool, Fail> {
    let whole = bytes(alloc, log.digits)?;
    let mut samples = SamplesOf { size: 0 };
    let run = parse_log(alloc, &mut samples, whole.as_slice())?;
    let mut is_so = run.items.len() == 6 && samples.size == size;
    for (item, row) in run.items.iter().zip(log.items.trim().lines()) {
        is_so &= is_item(row, item.head, item.bytes);
    }
    Ok(is_so && run.used == whole.len() && matches!(run.ended, Ended::Clean))
}

#[test]
fn whole_logs(rt: HostRuntime) -> Result<(), Fail> {
    assert!(rt; is_whole(rt.alloc(), SHORT, 3)? && is_whole(rt.alloc(), LONG, 1)?);
    Ok(())
}

// The beginnings of the short log and of the long one, and logs with a head that is refused. The result has the number of whole items, how
// many bytes they take, and what follows them: nothing, an item that needs so many more bytes, or the fault of a head.
const ENDS: &str = "
    => 0 0 clean 0
    0001 00 => 0 0 needs 1
    0001 0002 => 1 4 clean 0
    0001 0002 0002 00 => 1 4 needs 1
    0001 0002 0002 0007 => 1 4 needs 2
    0001 0002 0002 0007 aabb 0001 00 => 2 10 needs 1
    0001 0002 0002 0007 aabb 0001 0000 0002 0008 0001 0003 0002 0100 => 5 22 needs 3
    0001 0002 0002 0007 aabb 0001 0000 0002 0008 0001 0003 0002 0100 040506 => 6 29 clean 0
    0001 0008 0002 0001 0102030405060708 => 2 16 clean 0
    0001 0008 0002 0001 0102030405060708 0001 => 2 16 needs 2
    0001 0008 0002 0001 0102030405060708 0001 0009 => 3 20 clean 0
    0001 0008 0002 0001 0102030405060708 0001 0009 00 => 3 20 needs 5
    0001 0008 0002 0001 0102030405060708 0001 0009 0002 0001 => 3 20 needs 2
    0001 0008 0002 0001 0102030405060708 0001 0009 0002 00011170 => 3 20 needs 9
    0001 0008 0002 0001 0102030405060708 0001 0009 0002 00011170 09080706 => 3 20 needs 5
    0001 0008 0002 0001 0102030405060708 0001 0009 0002 00011170 090807060504030201 => 4 35 clean 0
    0001 0008 0002 0001 0102030405060708 0001 0009 0002 00011170 090807060504030201 0001 0000 => 4 35 needs 2
    0001 0008 0002 0001 0102030405060708 0001 0009 0002 00011170 090807060504030201 0001 00000001 => 5 41 clean 0
    0001 0008 0002 0001 0102030405060708 0001 0009 0002 00011170 090807060504030201 0001 00000001 0002 => 5 41 needs 2
    0001 0008 0002 0001 0102030405060708 0001 0009 0002 00011170 090807060504030201 0001 00000001 0002 0005 => 5 41 needs 1
    0001 0008 0002 0001 0102030405060708 0001 0009 0002 00011170 090807060504030201 0001 00000001 0002 0005 77 => 6 46 clean 0
    0001 0009 0003 0000 => 1 4 needs 2
    0001 0001 0002 0009 05 0003 0000 => 2 9 unknown kind 0
    0001 0001 0002 0009 05 0001 0400 => 2 9 size too large 0
    0001 0009 0003 00000000 00 => 1 4 unknown kind 0
    0001 0009 0001 00010005 00 => 1 4 size too large 0
    0001 0009 0001 000003e9 00 => 1 4 size too large 0";

// Returns the result of a run in the words of a row.
fn told(alloc: Global, log: &[u8]) -> Result<String, Fail> {
    let run = parse_log(alloc, &mut SamplesOf { size: 0 }, log)?;
    let (end, more) = match run.ended {
        Ended::Clean => ("clean", 0),
        Ended::Needs(more) => ("needs", more),
        Ended::Refused(LogFault::UnknownKind) => ("unknown kind", 0),
        Ended::Refused(LogFault::SizeTooLarge) => ("size too large", 0),
    };
    let (items, used) = (run.items.len(), run.used);
    Ok(format!(in alloc; "{items} {used} {end} {more}")?)
}

// Checks that an unknown kind isn't refused before its head is whole, and that a bad head ends the run for each size of samples.
#[test]
fn ends(rt: HostRuntime) -> Result<(), Fail> {
    every_row(rt.alloc(), ENDS, told)
}
