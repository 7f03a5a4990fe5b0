//! Messages about files on standard error, and the exit statuses that go with them.

ghost use Rattle.std.specs.Prelude.{◌≡◌};
ghost use Rattle.std.specs.IoError.{error_kind};
ghost use Rattle.pcapfile_files.specs.Statuses.{failed_status};

use crate::console::Console;
use crate::foreign::Foreign;
use crate::shown::{NOT_UTF8, Shown};
use pcap_core::PcapError;
use pcap_core::rules::Rule;
use pcap_program::Exit;
use std::io;
use std::io::ErrorKind;

/// The exit status when a capture is truncated or malformed.
pub const AT_FAULT: u8 = 1;

/// The exit status when the program does not understand its arguments.
pub const USAGE: u8 = 2;

/// The exit status when the program can't read its arguments or write its output.
pub const FAILED: u8 = 3;

/// The exit status when the program is out of memory.
const NO_MEMORY: u8 = 4;

/// The exit status when nobody reads the output any more: the one that a shell gives to a program ended by SIGPIPE.
pub const UNREAD: u8 = 141;

/// Returns the exit status for a failed read or write: 4 when out of memory, 141 when nobody reads the output any more, else 3.
pub fn status_of(error: &io::Error) -> u8
    ensures { result ≡ failed_status (error_kind error.now) }
{
    match error.kind() {
        ErrorKind::OutOfMemory => NO_MEMORY,
        ErrorKind::BrokenPipe => UNREAD,
        _ => FAILED,
    }
}

/// Prints why a file can't be read or written, and returns the exit status. Prints nothing if nobody reads the output any more.
pub fn tell_io(console: &Console, name: &str, error: &io::Error) -> io::Result<u8> {
    let shown = Shown(name);
    match error.kind() {
        ErrorKind::UnexpectedEof => {
            if !tell_foreign(console, name)? {
                eprintln!(console.for_line(); "pcapfile: {shown}: cut short")?;
            }
            return Ok(AT_FAULT);
        }
        ErrorKind::InvalidInput if name.ends_with(NOT_UTF8) => eprintln!(console.for_line();
            "pcapfile: {shown}: a name that is not UTF-8 can't be opened"
        )?,
        ErrorKind::BrokenPipe => {}
        _ => eprintln!(console.for_line(); "pcapfile: {shown}: {error}")?,
    }
    Ok(status_of(error))
}

/// Prints why a capture is refused or can't be read or written, and returns the exit status.
pub fn tell_error(console: &Console, name: &str, error: &PcapError) -> io::Result<u8> {
    let shown = Shown(name);
    match error {
        PcapError::IoError(error) => return tell_io(console, name, error),
        PcapError::OutOfMemory(_) => {
            eprintln!(console.for_line(); "pcapfile: {shown}: out of memory")?;
            return Ok(NO_MEMORY);
        }
        _ => {}
    }
    if tell_foreign(console, name)? {
        return Ok(AT_FAULT);
    }
    match error {
        PcapError::IncompleteBuffer(_) => eprintln!(console.for_line();
            "pcapfile: {shown}: cut short"
        )?,
        error => eprintln!(console.for_line(); "pcapfile: {shown}: {error}")?,
    }
    Ok(AT_FAULT)
}

/// Prints that a capture is refused at this byte, and by which rule, and returns the exit status.
pub fn tell_refused(console: &Console, name: &str, byte: u64, rule: Rule) -> io::Result<u8> {
    let shown = Shown(name);
    let (number, text) = (rule.number(), rule.text());
    console.note_fault();
    eprintln!(console.for_line();
        "pcapfile: {shown}: refused at byte {byte} by rule {number}: {text}"
    )?;
    Ok(AT_FAULT)
}

/// Prints what a file is that can't be read as a capture, and how to read it, if it doesn't begin like one. Returns false for a
/// classic capture: it prints how to read it if a text-mode transfer changed it, and otherwise records that it is malformed.
pub fn tell_foreign(console: &Console, name: &str) -> io::Result<bool> {
    let foreign = console.take_foreign();
    if foreign.is_none() {
        console.note_fault();
    }
    tell_known(console, name, foreign)
}

/// Prints what a file is that doesn't begin like a capture, and how to read it, and returns whether this is known.
pub fn tell_other_file(console: &Console, name: &str) -> io::Result<bool> {
    tell_known(console, name, console.take_foreign())
}

fn tell_known(console: &Console, name: &str, foreign: Option<Foreign>) -> io::Result<bool> {
    let shown = Shown(name);
    match foreign {
        None | Some(Foreign::Unknown) => Ok(false),
        Some(Foreign::ChangedPackets) => {
            let changed = Foreign::ChangedPackets;
            eprintln!(console.for_line(); "pcapfile: {shown}: {changed}")?;
            Ok(false)
        }
        Some(foreign) => {
            eprintln!(console.for_line(); "pcapfile: {shown}: {foreign}")?;
            Ok(true)
        }
    }
}

/// Prints how to read a capture that a text-mode transfer changed, if this is one and no message has reported that yet.
pub fn tell_changed(console: &Console, name: &str) -> io::Result<()> {
    let shown = Shown(name);
    match console.take_foreign() {
        Some(Foreign::ChangedBlocks | Foreign::ChangedPackets) => {
            let changed = Foreign::ChangedBlocks;
            eprintln!(console.for_line(); "pcapfile: {shown}: {changed}")
        }
        _ => Ok(()),
    }
}

/// Prints how the run over a file ended if it did not reach the end of the capture, and returns the exit status.
pub fn tell_exit(console: &Console, name: &str, exit: &Exit) -> io::Result<u8> {
    let shown = Shown(name);
    match exit {
        Exit::Done => return Ok(0),
        Exit::Refused(error) | Exit::Io(error) => return tell_error(console, name, error),
        Exit::Most => eprintln!(console.for_line();
            "pcapfile: {shown}: more packets than can be counted"
        )?,
        Exit::Usage => eprintln!(console.for_line(); "pcapfile: {shown}: not understood")?,
        Exit::Memory => eprintln!(console.for_line(); "pcapfile: {shown}: out of memory")?,
    }
    Ok(exit.status())
}

/// Prints why the program stopped writing a capture, and returns the exit status. An error of the output is returned as an error.
pub fn tell_unwritten(console: &Console, name: &str, exit: Exit) -> io::Result<u8> {
    match exit {
        Exit::Io(PcapError::IoError(error)) => Err(error),
        exit => tell_exit(console, name, &exit),
    }
}

/// Prints that the extension of the output's name stands for another format than the output's, which has this name.
pub fn tell_misnamed(console: &Console, out: &str, format: &str) -> io::Result<()> {
    let out = Shown(out);
    eprintln!(console.for_line();
        "pcapfile: {out}: the format is {format}, but the extension is that of the other format"
    )
}
