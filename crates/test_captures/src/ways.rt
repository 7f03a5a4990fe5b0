//! The blocks of a stream, which come in four ways, as the same text.

use crate::told::{tell_block, tell_blocks, tell_end, tell_state};
use pcap_file::ResultParsing;
use pcap_file::pcapng::{Block, PcapNgParser, PcapNgReader};
use pcap_file::run::{NgRead, read_pcapng};
use std::alloc::{AllocError, Global};
use std::io::Read;

/// The calls that give the blocks.
pub(crate) const WAYS: [&str; 4] = ["read_pcapng", "next", "next_header", "read_block"];

/// Returns what so many calls give after the first section: each block, `None` at an end, or the error; then the state after them, and
/// whether a read failed. A run is one call for that many blocks at most. If no capture begins with these bytes, the text is the error.
pub(crate) fn told<T: Read + Drop>(
    alloc: Global,
    way: &str,
    stream: T,
    calls: u64,
) -> Result<String, AllocError> {
    let mut told = String::new(alloc);
    match way {
        "read_pcapng" => tell_read(alloc, stream, calls, &mut told)?,
        "next" => tell_owned(alloc, stream, calls, &mut told)?,
        "next_header" => tell_lent(alloc, stream, calls, &mut told)?,
        "read_block" => tell_taken(alloc, stream, calls, &mut told)?,
        _ => told.push_str("no call has this name")?,
    }
    Ok(told)
}

fn tell_read<T: Read + Drop>(
    alloc: Global,
    stream: T,
    calls: u64,
    told: &mut String,
) -> Result<(), AllocError> {
    match &read_pcapng(alloc, stream, calls) {
        Ok(read) => tell_all(read, calls, told),
        Err(error) => tell_end(told, Some(error)),
    }
}

fn tell_all<T>(read: &NgRead<T>, calls: u64, told: &mut String) -> Result<(), AllocError> {
    tell_blocks(told, read.blocks.as_slice())?;
    if read.fault.is_some() || (read.blocks.len() as u64) < calls {
        tell_end(told, read.fault.as_ref())?;
    }
    tell_after(&read.reader, told)
}

// Adds the state of a reader, and whether a read failed.
fn tell_after<T>(reader: &PcapNgReader<T>, told: &mut String) -> Result<(), AllocError> {
    tell_state(told, reader.section(), reader.interfaces())?;
    if reader.failed() {
        told.push_str(" failed")?;
    }
    Ok(())
}

// Adds what a call gives, and returns whether it is an error.
fn tell_next(told: &mut String, next: &Option<ResultParsing<Block>>) -> Result<bool, AllocError> {
    match next {
        Some(Ok(block)) => tell_block(told, block)?,
        Some(Err(error)) => tell_end(told, Some(error))?,
        None => tell_end(told, None)?,
    }
    Ok(matches!(next, Some(Err(_))))
}

fn tell_owned<T: Read + Drop>(
    alloc: Global,
    stream: T,
    calls: u64,
    told: &mut String,
) -> Result<(), AllocError> {
    match &mut PcapNgReader::new(alloc, stream) {
        Ok(reader) => tell_each_owned(reader, calls, told),
        Err(error) => tell_end(told, Some(error)),
    }
}

fn tell_next_owned<T: Read + Drop>(
    reader: &mut PcapNgReader<T>,
    told: &mut String,
) -> Result<bool, AllocError> {
    tell_next(told, &reader.next())
}

fn gives_more<T: Read + Drop>(reader: &mut PcapNgReader<T>) -> bool {
    reader.next().is_some()
}

fn tell_each_owned<T: Read + Drop>(
    reader: &mut PcapNgReader<T>,
    calls: u64,
    told: &mut String,
) -> Result<(), AllocError> {
    let mut is_refused = false;
    for _call in 0..calls {
        is_refused = tell_next_owned(reader, told)?;
    }
    if is_refused && gives_more(reader) {
        told.push_str("and more ")?;
    }
    tell_after(reader, told)
}

fn tell_lent<T: Read + Drop>(
    alloc: Global,
    stream: T,
    calls: u64,
    told: &mut String,
) -> Result<(), AllocError> {
    match &mut PcapNgReader::new(alloc, stream) {
        Ok(reader) => tell_each_lent(reader, calls, told),
        Err(error) => tell_end(told, Some(error)),
    }
}

fn tell_each_lent<T: Read + Drop>(
    reader: &mut PcapNgReader<T>,
    calls: u64,
    told: &mut String,
) -> Result<(), AllocError> {
    let mut is_refused = false;
    for _call in 0..calls {
        is_refused = tell_next_lent(reader, told)?;
    }
    if is_refused && (reader.next_header().is_some() || !lends(reader, 0)) {
        told.push_str("and more ")?;
    }
    tell_after(reader, told)
}

// Returns whether a reader lends a block of this length, or nothing if the length is 0.
fn lends<T>(reader: &PcapNgReader<T>, length: usize) -> bool {
    reader.text().len() == length && reader.body().len() == length.saturating_sub(12)
}

// Adds what a call gives, and returns whether it is an error. Exactly the block that it gives must be lent.
fn tell_next_lent<T: Read + Drop>(
    reader: &mut PcapNgReader<T>,
    told: &mut String,
) -> Result<bool, AllocError> {
    let header = reader.next_header();
    let length = match &header {
        Some(Ok(header)) => header.initial_len as usize,
        _ => 0,
    };
    if !lends(reader, length) {
        told.push_str("lent otherwise ")?;
    }
    match &header {
        Some(Ok(header)) => tell_block(told, &reader.block(*header))?,
        Some(Err(error)) => tell_end(told, Some(error))?,
        None => tell_end(told, None)?,
    }
    Ok(matches!(header, Some(Err(_))))
}

fn tell_taken<T: Read + Drop>(
    alloc: Global,
    mut stream: T,
    calls: u64,
    told: &mut String,
) -> Result<(), AllocError> {
    match &mut PcapNgParser::from_reader(alloc, &mut stream) {
        Ok(parser) => tell_each_taken(parser, &mut stream, calls, told),
        Err(error) => tell_end(told, Some(error)),
    }
}

fn tell_each_taken<T: Read + Drop>(
    parser: &mut PcapNgParser,
    stream: &mut T,
    calls: u64,
    told: &mut String,
) -> Result<(), AllocError> {
    for _call in 0..calls {
        let _is_refused = tell_next(told, &parser.read_block(stream).transpose())?;
    }
    tell_state(told, parser.section(), parser.interfaces())
}
