//! The tests of the packets that a command reads, with what is read for them before the capture.

use crate::filters::load;
use crate::latest::latest_time;
use crate::selecting::{Selecting, Tests};
use pcap_filter::Filter;
use pcapfile_files::{Console, STANDARD, USAGE};
use std::io;

/// The packets that a command reads of its captures.
#[derive(Drop)]
pub struct Choice<'a> {
    /// The tests that a user names. `None` if the command reads the whole captures.
    pub selecting: Option<Selecting>,
    /// The name of the file with the filter, if there is one.
    pub bpf: Option<&'a str>,
}

/// Reads the filter in the file of this name, if there is one, for captures of these names. Reports why it can't be read, and returns the
/// exit status.
pub fn load_filter(
    console: &Console,
    bpf: Option<&str>,
    names: &[&str],
) -> io::Result<Result<Option<Filter>, u8>> {
    let Some(bpf) = bpf else {
        return Ok(Ok(None));
    };
    if bpf == STANDARD && names.contains(&STANDARD) {
        eprintln!(console.for_line();
            "error: the capture and the filter can't both be standard input"
        )?;
        return Ok(Err(USAGE));
    }
    match load(console, bpf)? {
        Ok(filter) => Ok(Ok(Some(filter))),
        Err(status) => Ok(Err(status)),
    }
}

/// Returns the tests of the packets in the capture of this name. If they depend on the latest time, reads the capture for it. Reports why
/// it can't be read twice, or how a read failed, and returns the exit status.
pub fn tests_of<'a>(
    console: &Console,
    name: &str,
    is_repaired: bool,
    selecting: &'a Selecting,
    filter: Option<&'a Filter>,
) -> io::Result<Result<Tests<'a>, u8>> {
    let mut tests = Tests {
        asked: selecting,
        filter,
        latest: None,
    };
    if selecting.needs_latest() {
        match latest_time(console, name, is_repaired)? {
            Ok(latest) => tests.latest = latest,
            Err(status) => return Ok(Err(status)),
        }
    }
    Ok(Ok(tests))
}

impl Choice<'_> {
    /// Returns the tests of the packets in the capture of this name, or None if the command reads all of it. The messages are those of
    /// `tests_of`.
    pub fn tests<'a>(
        &'a self,
        console: &Console,
        name: &str,
        is_repaired: bool,
        filter: Option<&'a Filter>,
    ) -> io::Result<Result<Option<Tests<'a>>, u8>> {
        let Some(selecting) = &self.selecting else {
            return Ok(Ok(None));
        };
        match tests_of(console, name, is_repaired, selecting, filter)? {
            Ok(tests) => Ok(Ok(Some(tests))),
            Err(status) => Ok(Err(status)),
        }
    }
}
