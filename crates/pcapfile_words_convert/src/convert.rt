//! The word `convert`.

use pcap_file::ResultParsing;
use pcapfile_convert::{Converted, convert_stream, tell_lost_bits};
use pcapfile_files::{Console, tell_error, tell_io, write_named};
use pcapfile_lenient::{Captured, tell_fault};
use pcapfile_reading::Input;
use pcapfile_run::Format;
use pcapfile_selected::{Account, Choice, Tests, load_filter, tell_account};
use std::io;
use std::io::Write;
use std::rc::Rc;

/// The arguments of `convert`.
#[derive(Drop)]
pub struct Conversion<'a> {
    /// The name of the capture to convert.
    pub from: &'a str,
    /// The format of the output. `None` for the format that the capture doesn't have.
    pub to: Option<Format>,
    /// The name of the output.
    pub out: &'a str,
    /// Whether the program converts what `repair` would write.
    pub as_is: bool,
    /// The packets that are converted.
    pub choice: Choice<'a>,
}

/// Converts a capture, and returns the exit status.
pub fn convert_file(console: &Console, asked: &Conversion) -> io::Result<u8> {
    let filter = match load_filter(console, asked.choice.bpf, &[asked.from])? {
        Ok(filter) => filter,
        Err(status) => return Ok(status),
    };
    let filter = filter.as_ref();
    let tests = match asked
        .choice
        .tests(console, asked.from, asked.as_is, filter)?
    {
        Ok(tests) => tests,
        Err(status) => return Ok(status),
    };
    let read = [asked.from, asked.choice.bpf.unwrap_or(asked.from)];
    let account = Rc::new(console.alloc(), Account::new())?;
    write_named(console, asked.out, &read, |output| {
        let ended = open_and_convert(console, asked, tests, &account, output);
        let status = tell_ended(console, asked, &ended)?;
        Ok(tell_account(console, asked.from, &account)?.max(status))
    })
}

fn tell_ended(
    console: &Console,
    asked: &Conversion,
    ended: &io::Result<Converted>,
) -> io::Result<u8> {
    let ended = match ended {
        Ok(ended) => ended,
        Err(error) => return tell_io(console, asked.from, error),
    };
    ended.left_out.tell(console, asked.from)?;
    if ended.has_lost_bits {
        tell_lost_bits(console, asked.from)?;
    }
    match &ended.fault {
        None => Ok(0),
        // A packet or a header that doesn't fit in the other format is no error of the output.
        Some(error) if ended.write_failed && error.rule().is_none() => {
            tell_error(console, asked.out, error)
        }
        Some(error) => tell_fault(console, asked.from, error),
    }
}

fn open_and_convert<W: Write + Drop>(
    console: &Console,
    asked: &Conversion,
    tests: Option<Tests<'_>>,
    account: &Rc<Account>,
    output: W,
) -> io::Result<Converted> {
    match open_reading(console, asked, tests, account) {
        Ok(capture) => convert_stream(console.alloc(), capture, asked.to, output),
        Err(error) => Ok(Converted::unread(error)),
    }
}

fn open_reading<'a>(
    console: &Console,
    asked: &Conversion,
    tests: Option<Tests<'a>>,
    account: &Rc<Account>,
) -> ResultParsing<Input<'a>> {
    let capture = Captured::open(console, asked.from, asked.as_is)?;
    Input::new(console, capture, tests, account)
}
