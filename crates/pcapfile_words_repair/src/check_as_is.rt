//! The lenient word `check`.

use crate::as_is::{Between, BlockLines, MOST, Telling};
use pcap_file::PcapError;
use pcap_program::{Exit, Uninterrupted, put_line};
use pcapfile_as_is::{CheckedAsIs, FlawLines, put_gap};
use pcapfile_files::{
    Console, EachFile, Inputs, OUTPUT, Shown, read_files, tell_changed, tell_error, tell_unwritten,
};
use pcapfile_rows::Change;
use pcapfile_run::{Checked, End, end_of};
use std::alloc::Global;
use std::io;
use std::io::{BufWriter, ErrorKind, Write};

/// A lenient check of one capture after another.
#[derive(Drop)]
struct LenientChecker<W> {
    output: W,
}

impl<W: Write> EachFile for LenientChecker<W> {
    fn read_file(&mut self, console: &Console, name: &str) -> io::Result<u8> {
        check_file(console, name, &mut self.output)
    }
}

/// Writes a line for each flaw, one for each gap, and one for each capture, and returns the worst exit status.
pub fn check_files_as_is(console: &Console, inputs: Inputs<'_>) -> io::Result<u8> {
    let stdout = Uninterrupted::new(console.rt().stdout());
    let mut checker = LenientChecker {
        output: BufWriter::with_capacity(console.alloc(), OUTPUT, stdout)?,
    };
    read_files(console, inputs, &mut checker)
}

fn check_file<W: Write>(console: &Console, name: &str, output: &mut W) -> io::Result<u8> {
    let mut telling = match Telling::open(console, name) {
        Ok(telling) => telling,
        Err(error) => return tell_error(console, name, &error),
    };
    let shown = Shown(name);
    let prefix = format!(in console.alloc(); "{shown}: ")?;
    match tell_flaws(console.alloc(), prefix.as_str(), &mut telling, output) {
        Ok(()) => tell_checked(console, name, telling, output),
        Err(exit) => {
            output.flush()?;
            tell_unwritten(console, name, exit)
        }
    }
}

// Writes the lines on the flaws and gaps of a capture.
fn tell_flaws<W: Write>(
    alloc: Global,
    prefix: &str,
    telling: &mut Telling,
    output: &mut W,
) -> Result<(), Exit> {
    let mut packets = FlawLines { prefix };
    let blocks = BlockLines::Flaws(prefix);
    for _ in 0..u64::MAX {
        let row = telling.tell_row(alloc, &mut packets, blocks, output)?;
        let Some(between) = row else {
            break;
        };
        put_between(alloc, output, prefix, telling, &between)?;
    }
    Ok(())
}

// Writes the line on what is between two packets or blocks.
fn put_between<W: Write>(
    alloc: Global,
    output: &mut W,
    prefix: &str,
    telling: &Telling,
    between: &Between,
) -> Result<(), Exit> {
    match between {
        Between::Gap(gap) => put_gap(alloc, output, prefix, gap),
        Between::Change(change) => put_change(alloc, output, prefix, telling, change),
    }
}

// Writes the line on a length that the reader changed.
fn put_change<W: Write>(
    alloc: Global,
    output: &mut W,
    prefix: &str,
    telling: &Telling,
    change: &Change,
) -> Result<(), Exit> {
    let text = telling.text_of(alloc, change, true)?;
    let line = format!(in alloc; "{prefix}{text}\n")?;
    put_line(output, line.as_bytes())
}

// Writes the line on a capture, and returns its exit status. If the capture can't be read, or memory runs out, the line goes to
// standard error.
fn tell_checked<W: Write>(
    console: &Console,
    name: &str,
    telling: Telling,
    output: &mut W,
) -> io::Result<u8> {
    let checked = checked_of(telling);
    let shown = Shown(name);
    let is_told = !matches!(&checked.checked.end, End::Unread(_) | End::Memory);
    if is_told {
        writeln!(output, "{shown}: {checked}")?;
    }
    output.flush()?;
    if !is_told {
        eprintln!(console.for_line(); "pcapfile: {shown}: {checked}")?;
    }
    let status = checked.status();
    if status > 0 {
        tell_changed(console, name)?;
    }
    Ok(status)
}

fn checked_of(telling: Telling) -> CheckedAsIs {
    let Telling {
        format,
        position,
        fault,
        changed,
        completed,
        ..
    } = telling;
    let items = position.counted.items;
    let (present, whole) = completed.unwrap_or((0, 0));
    CheckedAsIs {
        checked: Checked {
            format,
            items,
            bytes: position
                .counted
                .bytes
                .saturating_sub(whole)
                .saturating_add(present),
            end: end_behind(fault, items),
        },
        flawed: position.counted.flawed.saturating_add(changed),
        left_out: position.left_out,
    }
}

// Returns why a capture ended after this many packets or blocks.
fn end_behind(fault: Option<PcapError>, items: u64) -> End {
    match fault {
        Some(PcapError::IncompleteBuffer(_)) => End::Short,
        Some(PcapError::IoError(error)) if error.kind() == ErrorKind::OutOfMemory => End::Memory,
        fault => end_of(fault, true, items, MOST),
    }
}
