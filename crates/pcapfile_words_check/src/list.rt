//! The word `list`.

ghost use Rattle.std.specs.Prelude.{None};

use pcap_file::PcapError;
use pcap_filter::Filter;
use pcap_items::stream::Told;
use pcap_program::{Exit, Uninterrupted};
use pcapfile_files::{
    AT_FAULT, Console, Count, OUTPUT, Shown, buffered, open_watched, tell_exit, tell_io,
    tell_unwritten,
};
use pcapfile_lenient::{Captured, tell_fault};
use pcapfile_lines::{Form, HEADING, UTC_HEADING};
use pcapfile_list::list;
use pcapfile_reading::Input;
use pcapfile_selected::{Account, Choice, Tests, load_filter, tell_account};
use std::io::{BufWriter, ErrorKind, Read, Write};
use std::rc::Rc;
use std::{io, str};

/// The arguments of `list`.
#[derive(Drop)]
pub struct Listing<'a> {
    /// The names of the captures.
    pub names: &'a [&'a str],
    /// The form of the lines; `None` is the default form for people.
    pub form: Option<Form>,
    /// The number of packets of each capture that are listed; `None` is all of them.
    pub most: Option<u64>,
    /// The packets that are listed.
    pub choice: Choice<'a>,
}

/// The name of a packet's number in JSON.
const INDEX: &str = "\"index\":";

/// The packets that an output takes.
#[derive(Clone, Copy)]
struct Taken {
    form: Option<Form>,
    /// The number of packets with a malformed body.
    refused: u64,
    /// The number of packets that it still takes; `None` is all of them.
    left: Option<u64>,
    /// Whether the next write is a row of a packet's bytes, or the empty line after the rows.
    is_within: bool,
}

impl Taken {
    // Returns whether it takes no more packets.
    fn is_full(&self) -> bool {
        self.left == Some(0)
    }

    // Counts what was written: the line of a packet, a row of its bytes, or the empty line after the rows.
    fn count(&mut self, line: &[u8]) {
        if !self.is_within && is_refused(self.form, line) {
            self.refused = self.refused.saturating_add(1);
        }
        self.is_within = rows_follow(self.form, line);
        if self.is_within {
            return;
        }
        if let Some(left) = self.left {
            self.left = Some(left.saturating_sub(1));
        }
    }
}

/// An output of packets. Each line and each row is one write. After the last packet that it takes, a write or a flush fails, which ends
/// the list.
#[derive(Drop)]
struct Lines<W> {
    output: W,
    taken: Taken,
}

impl<W: Write> Write for Lines<W> {
    ghost contents = { λ lines. W.contents lines.output };

    fn write(&mut self, buf: &[u8]) -> io::Result<usize> {
        if self.taken.is_full() {
            return Err(io::Error::from(ErrorKind::Other));
        }
        let len = self.output.write(buf)?;
        if len == buf.len() {
            self.taken.count(buf);
        }
        Ok(len)
    }

    fn flush(&mut self) -> io::Result<()> {
        self.output.flush()?;
        if self.taken.is_full() {
            return Err(io::Error::from(ErrorKind::Other));
        }
        Ok(())
    }
}

/// An output of packets that gives each the number that it has in its capture, if these numbers are known. Each line and each row is one
/// write.
#[derive(Drop)]
struct Numbered<'a, W> {
    output: &'a mut W,
    form: Option<Form>,
    /// The numbers of the packets that are read.
    account: &'a Account,
    /// Whether the next write is a row of a packet's bytes, or the empty line after the rows.
    is_within: bool,
}

impl<W: Write> Write for Numbered<'_, W> {
    ghost contents = { λ lines. None };

    fn write(&mut self, buf: &[u8]) -> io::Result<usize> {
        let number = if self.is_within {
            None
        } else {
            self.account.take_number()
        };
        self.is_within = rows_follow(self.form, buf);
        let Some(number) = number else {
            return self.output.write(buf);
        };
        let line = str::from_utf8(buf).unwrap_or_default();
        let (front, label, rest) = around_number(self.form, line);
        write!(self.output, "{front}{label}{number}{rest}")?;
        Ok(buf.len())
    }

    fn flush(&mut self) -> io::Result<()> {
        self.output.flush()
    }
}

/// How a list ended.
#[derive(Drop)]
struct Listed {
    exit: Exit,
    /// The number of its packets with a malformed body.
    refused: u64,
    /// Whether as many packets were listed as were asked for.
    is_full: bool,
}

impl Listed {
    // Returns how the list of a capture whose beginning can't be read ended.
    fn unread(error: PcapError) -> Listed {
        Listed {
            exit: Exit::from(error),
            refused: 0,
            is_full: false,
        }
    }
}

/// Lists the packets of each capture, and returns the worst exit status. If there are several captures, the name of each is
/// before its packets, except in a form for programs.
pub fn list_files(console: &Console, asked: &Listing) -> io::Result<u8> {
    let filter = match load_filter(console, asked.choice.bpf, asked.names)? {
        Ok(filter) => filter,
        Err(status) => return Ok(status),
    };
    let stdout = Uninterrupted::new(console.rt().stdout());
    let mut output = Told::new(BufWriter::with_capacity(console.alloc(), OUTPUT, stdout)?);
    output.write_all(heading(asked.form).as_bytes())?;
    let mut status = 0;
    for name in asked.names {
        let one = list_file(console, name, asked, filter.as_ref(), &mut output)?;
        status = one.max(status);
    }
    Ok(status)
}

// Lists the packets of a capture, and returns the exit status.
fn list_file<W: Write>(
    console: &Console,
    name: &str,
    asked: &Listing,
    filter: Option<&Filter>,
    output: &mut Told<W>,
) -> io::Result<u8> {
    let tests = match asked.choice.tests(console, name, false, filter)? {
        Ok(tests) => tests,
        Err(status) => return Ok(status),
    };
    let account = Rc::new(console.alloc(), Account::new())?;
    let listed = open_and_list(console, name, asked, tests, &account, output);
    let write_failed = output.failed();
    // The listed packets are written before the messages on them.
    output.flush()?;
    let status = tell_listed(console, name, listed, write_failed)?;
    Ok(tell_account(console, name, &account)?.max(status))
}

// Reports the error that ended a list early, if any, and returns the exit status. A failed write ends all lists.
fn tell_listed(
    console: &Console,
    name: &str,
    listed: io::Result<Listed>,
    write_failed: bool,
) -> io::Result<u8> {
    let Listed {
        exit,
        refused,
        is_full,
    } = match listed {
        Ok(listed) => listed,
        Err(error) if write_failed => return Err(error),
        Err(error) => return tell_io(console, name, &error),
    };
    if write_failed {
        return tell_unwritten(console, name, exit);
    }
    let status = tell_refused(console, name, refused)?;
    if is_full {
        return Ok(status);
    }
    let ended = match exit {
        Exit::Refused(error) | Exit::Io(error) => tell_fault(console, name, &error)?,
        exit => tell_exit(console, name, &exit)?,
    };
    Ok(ended.max(status))
}

// Reports the packets with a malformed body, if there are any, and returns the exit status.
fn tell_refused(console: &Console, name: &str, refused: u64) -> io::Result<u8> {
    if refused == 0 {
        return Ok(0);
    }
    let shown = Shown(name);
    let packets = Count(
        refused,
        "packet has a malformed body",
        "packets have a malformed body",
    );
    eprintln!(console.for_line();
        "pcapfile: {shown}: {packets}; 'pcapfile list --as-is' names the rules"
    )?;
    Ok(AT_FAULT)
}

// Returns whether a line in this form is that of a packet with a malformed body. In a form for people the last letter settles
// almost every line.
fn is_refused(form: Option<Form>, line: &[u8]) -> bool {
    match form {
        None | Some(Form::Utc | Form::Hex | Form::UtcHex) => {
            line.ends_with(b"d\n") && line.ends_with(b" refused\n")
        }
        Some(Form::Csv) => line.ends_with(b",,,,,\n"),
        Some(Form::UtcCsv) => line.ends_with(b",,,,\n"),
        Some(Form::Json) => line.starts_with(b"{\"captured\":null,"),
    }
}

// Returns what precedes all lines in this form.
fn heading(form: Option<Form>) -> &'static str {
    match form {
        Some(Form::Csv) => HEADING,
        Some(Form::UtcCsv) => UTC_HEADING,
        None | Some(Form::Utc | Form::Json | Form::Hex | Form::UtcHex) => "",
    }
}

fn is_read_by_people(form: Option<Form>) -> bool {
    matches!(form, None | Some(Form::Utc | Form::Hex | Form::UtcHex))
}

// Returns whether the rows of a packet's bytes follow its line in this form.
fn has_rows(form: Option<Form>) -> bool {
    match form {
        None => false,
        Some(form) => form.has_rows(),
    }
}

// Returns whether a row of a packet's bytes, or the empty line after the rows, follows this line in this form.
fn rows_follow(form: Option<Form>, line: &[u8]) -> bool {
    has_rows(form) && line != b"\n".as_slice()
}

// Returns the line of a packet up to its number, and after it.
fn around_number(form: Option<Form>, line: &str) -> (&str, &str, &str) {
    let (front, label, rest) = match (form, line.split_once(INDEX)) {
        (Some(Form::Json), Some((front, rest))) => (front, INDEX, rest),
        _ => ("", "", line),
    };
    (
        front,
        label,
        rest.trim_start_matches(|c: char| c.is_ascii_digit()),
    )
}

// Opens a capture, and lists its packets, or the ones that pass the tests.
fn open_and_list<W: Write>(
    console: &Console,
    name: &str,
    asked: &Listing,
    tests: Option<Tests<'_>>,
    account: &Rc<Account>,
    output: &mut W,
) -> io::Result<Listed> {
    let stream = open_watched(console, name)?;
    if asked.names.len() > 1 && is_read_by_people(asked.form) {
        let shown = Shown(name);
        writeln!(output, "{shown}:")?;
    }
    if tests.is_some() {
        account.keep_numbers(console.alloc());
    }
    match Input::new(console, Captured::Whole(stream), tests, account) {
        Ok(capture) => list_capture(console, asked, capture, account, output),
        Err(error) => Ok(Listed::unread(error)),
    }
}

fn list_capture<R: Read + Drop, W: Write>(
    console: &Console,
    asked: &Listing,
    capture: R,
    account: &Account,
    output: &mut W,
) -> io::Result<Listed> {
    let Listing { form, most, .. } = *asked;
    let mut input = buffered(console.alloc(), capture)?;
    let numbered = Numbered {
        output,
        form,
        account,
        is_within: false,
    };
    let taken = Taken {
        form,
        refused: 0,
        left: most,
        is_within: false,
    };
    let mut lines = Lines {
        output: numbered,
        taken,
    };
    let exit = list(console.alloc(), form, &mut input, &mut lines, u64::MAX);
    let is_full = lines.taken.is_full();
    if is_full {
        // An error after the last packet that is listed is of no interest.
        let _ = account.take_fault();
    }
    Ok(Listed {
        exit,
        refused: lines.taken.refused,
        is_full,
    })
}
