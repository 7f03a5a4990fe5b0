//! The word `info`.

use crate::check::tell_unread;
use pcap_file::PcapError;
use pcap_filter::Filter;
use pcap_program::{Exit, Uninterrupted};
use pcapfile_files::{
    AT_FAULT, Console, EachFile, Inputs, OUTPUT, Shown, ShownJson, buffered, read_files,
    tell_error, tell_exit, tell_foreign, tell_io,
};
use pcapfile_info::{Information, inform_blocks, inform_packets};
use pcapfile_lenient::{Captured, tell_unopened};
use pcapfile_reading::Input;
use pcapfile_run::{Checked, End, Format, format_of};
use pcapfile_selected::{Account, Choice, Tests, load_filter, tell_account};
use pcapfile_shown::{COLUMNS, Report, Total, Unwritten, row_of, write_json};
use std::io::{BufWriter, ErrorKind, Read, Write};
use std::rc::Rc;
use std::{fmt, io};

/// The form of the reports.
#[derive(Clone, Copy, PartialEq, Eq)]
pub enum Reporting {
    /// Lines for people.
    Lines,
    /// A JSON object for each capture.
    Json,
    /// A table with a row for each capture.
    Table,
}

/// The arguments of `info`.
#[derive(Drop)]
pub struct Informing<'a> {
    /// The names of the captures.
    pub inputs: Inputs<'a>,
    /// The form of the reports.
    pub form: Reporting,
    /// Whether the totals over all captures follow the reports.
    pub in_total: bool,
    /// Whether the reports have the digest of each file.
    pub with_digest: bool,
    /// Whether the program reads what `repair` would write of the captures.
    pub as_is: bool,
    /// The packets that the reports are about.
    pub choice: Choice<'a>,
}

/// The information on a capture, and the digest of its file if that is wanted.
#[derive(Drop)]
struct Informed {
    information: Information,
    digest: Option<String>,
}

impl Informed {
    fn digest(&self) -> Option<&str> {
        match &self.digest {
            Some(digest) => Some(digest.as_str()),
            None => None,
        }
    }
}

/// The output of the reports. JSON is displayed with escapes, and the error of a failed write is kept.
#[derive(Drop)]
struct Output<W> {
    stream: W,
    error: Option<io::Error>,
}

impl<W: Write> fmt::Write for Output<W> {
    fn write_str(&mut self, text: &str) -> fmt::Result {
        let shown = ShownJson(text);
        match write!(self.stream, "{shown}") {
            Ok(()) => Ok(()),
            Err(error) => {
                self.error = Some(error);
                Err(fmt::Error)
            }
        }
    }
}

/// Reports on one capture after another.
#[derive(Drop)]
struct Informer<'a, W> {
    asked: &'a Informing<'a>,
    filter: &'a Option<Filter>,
    total: Total,
    output: Output<W>,
}

impl<W: Write> EachFile for Informer<'_, W> {
    fn read_file(&mut self, console: &Console, name: &str) -> io::Result<u8> {
        let asked = self.asked;
        let filter = self.filter.as_ref();
        let tests = match asked.choice.tests(console, name, asked.as_is, filter)? {
            Ok(tests) => tests,
            Err(status) => return Ok(status),
        };
        let account = Rc::new(console.alloc(), Account::new())?;
        let status = match inform(console, name, asked, tests, &account) {
            Ok(informed) => write_told(
                console,
                name,
                &informed,
                asked,
                &mut self.total,
                &mut self.output,
            )?,
            Err(error) => tell_unopened(console, name, &error)?,
        };
        Ok(tell_account(console, name, &account)?.max(status))
    }
}

/// Writes a report on each capture, and the totals if they are wanted, and returns the worst exit status.
pub fn inform_files(console: &Console, asked: &Informing) -> io::Result<u8> {
    let filter = match load_filter(console, asked.choice.bpf, asked.inputs.names)? {
        Ok(filter) => filter,
        Err(status) => return Ok(status),
    };
    let stdout = Uninterrupted::new(console.rt().stdout());
    let mut output = Output {
        stream: BufWriter::with_capacity(console.alloc(), OUTPUT, stdout)?,
        error: None,
    };
    if asked.form == Reporting::Table {
        write_row(COLUMNS, asked.with_digest, Some("sha256"), &mut output)?;
    }
    let mut informer = Informer {
        asked,
        filter: &filter,
        total: Total::new(),
        output,
    };
    let status = read_files(console, asked.inputs, &mut informer)?;
    let Informer {
        total,
        mut output,
        ..
    } = informer;
    if asked.in_total {
        console.clear();
        write_total(console, &total, asked, status, &mut output)?;
    }
    output.stream.flush()?;
    Ok(status)
}

// Reads a capture, and what follows an error in it if the digest of the file is wanted.
fn inform(
    console: &Console,
    name: &str,
    asked: &Informing,
    tests: Option<Tests<'_>>,
    account: &Rc<Account>,
) -> Result<Informed, PcapError> {
    if asked.with_digest {
        console.begin_digest();
    }
    let capture = Captured::open(console, name, asked.as_is)?;
    inform_on(
        console,
        asked,
        Input::new(console, capture, tests, account)?,
    )
}

fn inform_on<R: Read + Drop>(
    console: &Console,
    asked: &Informing,
    capture: R,
) -> Result<Informed, PcapError> {
    let mut input = buffered(console.alloc(), capture)?;
    let information = match format_of(&mut input)? {
        Format::Pcap => inform_packets(console.alloc(), &mut input)?,
        Format::PcapNg => inform_blocks(console.alloc(), &mut input)?,
    };
    if asked.with_digest {
        io::copy(&mut input, &mut io::sink())?;
    }
    Ok(Informed {
        information,
        digest: console.take_digest()?,
    })
}

// Writes the report on a capture. If the capture can't be read, or memory runs out, the program only writes a message to
// standard error.
fn write_told<W: Write>(
    console: &Console,
    name: &str,
    informed: &Informed,
    asked: &Informing,
    total: &mut Total,
    output: &mut Output<W>,
) -> io::Result<u8> {
    let information = &informed.information;
    let checked = &information.checked;
    if let Some(status) = tell_unfinished(console, name, checked, asked)? {
        return Ok(status);
    }
    // The progress line is cleared before any other line is written.
    console.clear();
    let is_foreign = checked.status() == AT_FAULT && tell_foreign(console, name)?;
    if is_foreign && asked.form == Reporting::Lines {
        return Ok(AT_FAULT);
    }
    total.add(information);
    match asked.form {
        Reporting::Json => tell_json(console, name, informed, output),
        Reporting::Lines => tell_lines(console, name, informed, output),
        Reporting::Table => tell_row(console, name, informed, asked.with_digest, output),
    }
}

// Reports why a capture can't be read to its end or to its first malformed item, and returns the exit status. Returns None if it was read.
fn tell_unfinished(
    console: &Console,
    name: &str,
    checked: &Checked,
    asked: &Informing,
) -> io::Result<Option<u8>> {
    let is_selected = asked.choice.selecting.is_some();
    Ok(match &checked.end {
        // A repaired capture also counts as unread if memory runs out.
        End::Unread(PcapError::IoError(error)) if error.kind() == ErrorKind::OutOfMemory => {
            Some(tell_io(console, name, error)?)
        }
        // A byte of the selected packets is none of the file.
        End::Unread(error) if is_selected => Some(tell_error(console, name, error)?),
        End::Memory if is_selected => Some(tell_exit(console, name, &Exit::Memory)?),
        End::Unread(_) | End::Memory => {
            tell_unread(console, name, checked)?;
            Some(checked.status())
        }
        _ => None,
    })
}

// Writes the report on a capture in lines.
fn tell_lines<W: Write>(
    console: &Console,
    name: &str,
    informed: &Informed,
    output: &mut Output<W>,
) -> io::Result<u8> {
    let information = &informed.information;
    let shown = Shown(name);
    let name = format!(in console.alloc(); "{shown}")?;
    let report = Report {
        name: name.as_str(),
        digest: informed.digest(),
        information,
    };
    write!(output.stream, "{report}")?;
    output.stream.flush()?;
    Ok(information.checked.status())
}

// Writes the row of a capture. If memory runs out, a message goes to standard error instead.
fn tell_row<W: Write>(
    console: &Console,
    name: &str,
    informed: &Informed,
    with_digest: bool,
    output: &mut Output<W>,
) -> io::Result<u8> {
    let information = &informed.information;
    let shown = Shown(name);
    let shown = format!(in console.alloc(); "{shown}")?;
    match row_of(console.alloc(), shown.as_str(), information) {
        Ok(row) => write_row(row.as_str(), with_digest, informed.digest(), output)?,
        Err(error) => return tell_error(console, name, &PcapError::from(error)),
    }
    output.stream.flush()?;
    Ok(information.checked.status())
}

// Writes a row, which ends with a line feed, and in a table with digests this one behind it, or a hyphen.
fn write_row<W: Write>(
    row: &str,
    with_digest: bool,
    digest: Option<&str>,
    output: &mut Output<W>,
) -> io::Result<()> {
    if !with_digest {
        return output.stream.write_all(row.as_bytes());
    }
    let row = row.trim_end_matches('\n');
    let digest = digest.unwrap_or("-");
    writeln!(output.stream, "{row}\t{digest}")
}

// Writes the totals over all captures, whose worst status is this one.
fn write_total<W: Write>(
    console: &Console,
    total: &Total,
    asked: &Informing,
    status: u8,
    output: &mut Output<W>,
) -> io::Result<()> {
    match asked.form {
        Reporting::Json => {
            let object = total.json(console.alloc(), status)?;
            let object = object.as_str();
            writeln!(output.stream, "{object}")
        }
        Reporting::Lines => write!(output.stream, "{total}"),
        Reporting::Table => {
            let row = total.row(console.alloc(), status)?;
            write_row(row.as_str(), asked.with_digest, None, output)
        }
    }
}

// Writes the JSON report on a capture. If memory runs out, the line ends early, and a message goes to standard error.
fn tell_json<W: Write>(
    console: &Console,
    name: &str,
    informed: &Informed,
    output: &mut Output<W>,
) -> io::Result<u8> {
    let information = &informed.information;
    let written = write_json(
        console.alloc(),
        name,
        informed.digest(),
        information,
        output,
    );
    if let Some(error) = output.error.take() {
        return Err(error);
    }
    writeln!(output.stream)?;
    output.stream.flush()?;
    match written {
        Ok(()) => Ok(information.checked.status()),
        Err(Unwritten::Memory(error)) => tell_error(console, name, &PcapError::from(error)),
        Err(Unwritten::Output(_)) => Err(io::Error::from(ErrorKind::Other)),
    }
}
