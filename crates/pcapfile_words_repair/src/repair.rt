//! The word `repair`.

use pcap_file::PcapError;
use pcapfile_files::{
    AT_FAULT, Console, OUTPUT, STANDARD, Shown, USAGE, open_watched, tell_changed, tell_error,
    tell_foreign, tell_io, write_named,
};
use pcapfile_lenient::{Outcome, Repaired, Reporting, tell_unopened};
use pcapfile_rows::Opening;
use std::io;
use std::io::{BufWriter, Write};

/// The arguments of `repair`.
#[derive(Drop)]
pub struct Repair<'a> {
    /// The name of the capture to repair.
    pub from: &'a str,
    /// The name of the repaired capture.
    pub out: &'a str,
    /// Where the header of a classic capture comes from.
    pub opening: Opening,
    /// Whether the report is a JSON object on standard output.
    pub as_json: bool,
}

/// Writes a capture that breaks no rule from what can be read of another one, and returns the exit status, which says whether the
/// capture was sound, is repaired, or is repaired with guesses.
pub fn repair_file(console: &Console, asked: &Repair) -> io::Result<u8> {
    if asked.as_json && asked.out == STANDARD {
        eprintln!(console.for_line();
            "error: --json writes to standard output, so the repaired capture needs the name of a file"
        )?;
        return Ok(USAGE);
    }
    let mut outcome = Outcome::Kept;
    let told = write_named(console, asked.out, &[asked.from], |output| {
        repair_to(console, asked, output, &mut outcome)
    })?;
    Ok(if told == 0 { outcome.status() } else { told })
}

// Writes the repaired capture and the report, and returns the exit status of a failure, or 0. The outcome is set if the repair
// is complete.
fn repair_to<W: Write + Drop>(
    console: &Console,
    asked: &Repair,
    output: W,
    outcome: &mut Outcome,
) -> io::Result<u8> {
    let reporting = if asked.as_json {
        Reporting::Json
    } else {
        Reporting::Lines
    };
    let stream = match open_watched(console, asked.from) {
        Ok(stream) => stream,
        Err(error) => return tell_io(console, asked.from, &error),
    };
    let opened = Repaired::opened_as(console, asked.from, stream, asked.opening, reporting);
    let mut repaired = match opened {
        Ok(repaired) => repaired,
        Err(error) => return tell_refused(console, asked, &error),
    };
    let mut output = BufWriter::with_capacity(console.alloc(), OUTPUT, output)?;
    for _ in 0..u64::MAX {
        let bytes = match repaired.next_bytes() {
            Ok(bytes) => bytes,
            Err(error) => return tell_io(console, asked.from, &error),
        };
        if bytes.is_empty() {
            break;
        }
        if let Err(error) = output.write_all(bytes) {
            return tell_io(console, asked.out, &error);
        }
        let len = bytes.len();
        repaired.pass(len);
    }
    if let Err(error) = output.flush() {
        return tell_io(console, asked.out, &error);
    }
    match repaired.finish() {
        Ok(summary) => *outcome = summary.outcome(),
        Err(error) => return tell_io(console, STANDARD, &error),
    }
    if matches!(asked.opening, Opening::Own) && *outcome != Outcome::Kept {
        tell_changed(console, asked.from)?;
    }
    Ok(0)
}

// Returns which options help if the header of a capture may be lost.
fn advice_after(opening: Opening) -> Option<&'static str> {
    match opening {
        Opening::Own => Some(
            "if its header is lost, --guess guesses one, and --header ORDER,RESOLUTION,LINK gives one",
        ),
        Opening::Guess(_) => Some(
            "--guess finds no four packets or two blocks in a row; --header ORDER,RESOLUTION,LINK gives a header",
        ),
        Opening::Given(_) => None,
    }
}

// Prints why a capture can't be opened, and if its header may be lost, which options help. Returns the exit status.
fn tell_refused(console: &Console, asked: &Repair, error: &PcapError) -> io::Result<u8> {
    let is_refused = matches!(error, PcapError::InvalidField(_));
    let Some(advice) = advice_after(asked.opening).filter(|_| is_refused) else {
        return tell_unopened(console, asked.from, error);
    };
    if tell_foreign(console, asked.from)? {
        return Ok(AT_FAULT);
    }
    let status = tell_error(console, asked.from, error)?;
    let shown = Shown(asked.from);
    eprintln!(console.for_line(); "pcapfile: {shown}: {advice}")?;
    Ok(status)
}
