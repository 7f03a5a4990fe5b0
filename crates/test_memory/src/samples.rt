//! Calls on a log of samples, whose items are read from a stream in the same way as packets and blocks.

use crate::tell;
use pcap_core::{PcapError, ResultParsing};
use pcap_items::stream::Held;
use std::alloc::Global;
use std::io::{self, Cursor};
use test_formats::samples::{LogError, SampleReader, take_next};

/// A sample of three bytes, and the size before it.
const LOG: [u8; 11] = [0, 1, 0, 3, 0, 2, 0, 7, 4, 5, 6];

pub(crate) fn make_calls(rt: &HostRuntime) -> io::Result<()> {
    let alloc = rt.alloc();
    tell(rt, "SampleReader::next_head", next_head(alloc))?;
    tell(rt, "take_next", take(alloc))
}

fn next_head(alloc: Global) -> ResultParsing<()> {
    let mut reader = SampleReader::new(alloc, Cursor::new(LOG));
    lend(&mut reader)?;
    lend(&mut reader)
}

// Holds the next item.
fn lend(reader: &mut SampleReader<Cursor<[u8; 11]>>) -> ResultParsing<()> {
    match reader.next_head() {
        None => Err(PcapError::InvalidField("no item came")),
        Some(Ok(_head)) => Ok(()),
        Some(Err(_)) if reader.failed() => Err(PcapError::InvalidField("no read failed")),
        Some(Err(error)) => Err(stopped(error)),
    }
}

// Returns why a call on a stream whose heads are good returned no item.
fn stopped(error: LogError) -> PcapError {
    match error {
        LogError::Stopped(error) => error,
        LogError::Refused(_) => PcapError::InvalidField("no head is bad"),
    }
}

fn take(alloc: Global) -> ResultParsing<()> {
    let (_size, mut sample) = LOG.split_at(4);
    let mut has_failed = false;
    let mut held = Held::new(alloc);
    match take_next(alloc, 3, &mut sample, &mut has_failed, &mut held) {
        Ok(Some((_head, _bytes))) => Ok(()),
        Ok(None) => Err(PcapError::InvalidField("no item came")),
        Err(error) => Err(stopped(error)),
    }
}
