//! Makes calls that allocate memory, each of them twice, and prints for each whether it ran out of memory.
#![tactic(auto)]

mod bodies;
mod bytes;
mod captures;
mod parts;
mod pcapng;
mod resumption;
mod samples;
mod writing;

use pcap_classic::{PcapError, ResultParsing};
use std::io;

fn main(rt: HostRuntime) -> io::Result<()> {
    for _turn in 0..2 {
        resumption::feed_bytes(&rt)?;
        captures::make_calls(&rt)?;
        bodies::make_calls(&rt)?;
        parts::make_calls(&rt)?;
        pcapng::make_calls(&rt)?;
        resumption::make_calls(&rt)?;
        samples::make_calls(&rt)?;
        pcapng::make_copies(&rt)?;
        writing::make_calls(&rt)?;
    }
    Ok(())
}

// Prints how a call ended.
fn tell<T: Drop>(rt: &HostRuntime, name: &str, ended: ResultParsing<T>) -> io::Result<()> {
    match &ended {
        Ok(_) => println!(rt; "{name}: ok"),
        Err(PcapError::OutOfMemory(_)) => println!(rt; "{name}: out of memory"),
        Err(_) => println!(rt; "{name}: another error"),
    }
}

// Returns how the call for the next item of a capture ended, which has one.
fn came<T: Drop>(next: Option<ResultParsing<T>>) -> ResultParsing<()> {
    match next {
        None => Err(PcapError::InvalidField("no item came")),
        Some(Ok(_)) => Ok(()),
        Some(Err(error)) => Err(error),
    }
}

// Returns how a run ended, with or without this fault.
fn without(fault: Option<PcapError>) -> ResultParsing<()> {
    match fault {
        None => Ok(()),
        Some(error) => Err(error),
    }
}
