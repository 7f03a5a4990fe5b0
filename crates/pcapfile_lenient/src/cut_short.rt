//! Messages on truncated and malformed captures, with the byte of the item that is truncated or malformed.

use pcap_file::{PcapError, Rule};
use pcapfile_files::{
    AT_FAULT, Console, STANDARD, Shown, buffered, tell_error, tell_foreign, tell_refused,
};
use pcapfile_run::{Checked, End, Format, check_blocks, check_packets, format_of};
use std::fs::File;
use std::io::ErrorKind;
use std::{fs, io};

/// The path of the file that is standard input.
const STANDARD_INPUT: &str = "/proc/self/fd/0";

/// Prints why the capture with this name can't be read to its end, as `tell_error` does, and returns the exit status. If a file is
/// truncated or malformed, the message has the byte at which that packet or block begins. A pipe can't be read again to find that byte.
pub fn tell_fault(console: &Console, name: &str, error: &PcapError) -> io::Result<u8> {
    if !is_cut_short(error) && error.rule().is_none() {
        return tell_error(console, name, error);
    }
    // If the file can't be checked, the first error is the one to report.
    match checked_again(console, name) {
        Ok(Some(checked)) => tell_checked(console, name, error, &checked),
        _ => tell_error(console, name, error),
    }
}

/// Prints why the capture with this name can't be opened, as `tell_error` does, and returns the exit status. A capture that is truncated
/// in its first header or block is truncated at byte 0.
pub fn tell_unopened(console: &Console, name: &str, error: &PcapError) -> io::Result<u8> {
    if is_cut_short(error) {
        return tell_cut_short(console, name, 0);
    }
    tell_error(console, name, error)
}

/// Prints that the capture with this name is truncated at this byte, or what the file is that is no capture, and returns the exit status.
pub fn tell_cut_short(console: &Console, name: &str, byte: u64) -> io::Result<u8> {
    if !tell_foreign(console, name)? {
        let shown = Shown(name);
        eprintln!(console.for_line(); "pcapfile: {shown}: cut short at byte {byte}")?;
    }
    Ok(AT_FAULT)
}

// Returns whether an error is that of a truncated capture.
fn is_cut_short(error: &PcapError) -> bool {
    match error {
        PcapError::IncompleteBuffer(_) => true,
        PcapError::IoError(error) => error.kind() == ErrorKind::UnexpectedEof,
        _ => false,
    }
}

// Prints the error with the byte at which the check of the same capture ends, if it ends for the same reason.
fn tell_checked(
    console: &Console,
    name: &str,
    error: &PcapError,
    checked: &Checked,
) -> io::Result<u8> {
    match &checked.end {
        End::Short if is_cut_short(error) => tell_cut_short(console, name, checked.bytes),
        End::Unread(end) if is_cut_short(error) && is_cut_short(end) => {
            tell_cut_short(console, name, checked.bytes)
        }
        // A file that is no capture breaks a rule at its beginning.
        End::Breaks(rule) if error.rule() == Some(*rule) && checked.bytes > 0 => {
            tell_malformed(console, name, checked.bytes, *rule)
        }
        _ => tell_error(console, name, error),
    }
}

// Prints that a capture is refused at this byte by this rule, or what the file is that is no capture.
fn tell_malformed(console: &Console, name: &str, byte: u64, rule: Rule) -> io::Result<u8> {
    if tell_foreign(console, name)? {
        return Ok(AT_FAULT);
    }
    tell_refused(console, name, byte, rule)
}

// Checks a capture from its beginning, if it is a regular file.
fn checked_again(console: &Console, name: &str) -> io::Result<Option<Checked>> {
    let path = if name == STANDARD {
        STANDARD_INPUT
    } else {
        name
    };
    if !fs::metadata(console.rt(), path)?.is_file() {
        return Ok(None);
    }
    let mut input = buffered(console.alloc(), File::open(console.rt(), path)?)?;
    Ok(Some(match format_of(&mut input)? {
        Format::Pcap => check_packets(console.alloc(), input),
        Format::PcapNg => check_blocks(console.alloc(), input),
    }))
}
