//! The word `sort`.

ghost use Rattle.std.specs.Prelude.{None};

use pcap_program::{Exit, Uninterrupted};
use pcapfile_cut::Outcome;
use pcapfile_files::{
    Console, FAILED, OUTPUT, PCAP_EXTENSIONS, PCAPNG_EXTENSIONS, STANDARD, Shown, USAGE, Watched,
    buffered, open_watched, tell_error, tell_exit, tell_io, tell_misnamed, write_named,
};
use pcapfile_lenient::tell_unopened;
use pcapfile_run::{Format, format_of};
use pcapfile_selected::tell_outcome;
use pcapfile_sort::{ReadAgain, Refusal, Sorted, SortedBlocks, sort_blocks, sort_capture};
use std::fs::File;
use std::io;
use std::io::{BufReader, BufWriter, ErrorKind, Write};
use std::os::unix::fs::FileExt;

/// The arguments of `sort`.
#[derive(Clone, Copy)]
pub struct Sorting<'a> {
    /// The name of the capture to sort.
    pub from: &'a str,
    /// The name of the sorted capture.
    pub out: &'a str,
}

type Input = BufReader<Uninterrupted<Watched>>;

// The file of a capture, in which packets are read again.
#[derive(Drop)]
struct Again {
    file: File,
    // Whether a read failed.
    has_failed: bool,
}

impl ReadAgain for Again {
    ghost bytes = { λ again. None };

    ghost has_failed = { λ again. again.has_failed };

    fn read_at(&mut self, place: u64, buf: &mut [u8]) -> io::Result<()> {
        match self.file.read_exact_at(buf, place) {
            Ok(()) => Ok(()),
            Err(error) => {
                self.has_failed = true;
                Err(error)
            }
        }
    }
}

/// Sorts the packets of a capture by time, and returns the exit status.
pub fn sort_file(console: &Console, asked: Sorting<'_>) -> io::Result<u8> {
    if asked.from == STANDARD {
        return tell_no_file(console);
    }
    write_named(console, asked.out, &[asked.from], |output| {
        open_and_sort(console, asked, output)
    })
}

// Reports that a capture in a pipe can't be sorted, and returns the exit status.
fn tell_no_file(console: &Console) -> io::Result<u8> {
    eprintln!(console.for_line(); "error: sort needs a file, because it reads the capture twice")?;
    Ok(USAGE)
}

fn open_and_sort<W: Write + Drop>(
    console: &Console,
    asked: Sorting<'_>,
    output: W,
) -> io::Result<u8> {
    let stream = match open_watched(console, asked.from) {
        Ok(stream) => stream,
        Err(error) => return tell_io(console, asked.from, &error),
    };
    if stream.length().is_none() {
        return tell_no_file(console);
    }
    let file = match File::open(console.rt(), asked.from) {
        Ok(file) => file,
        Err(error) => return tell_io(console, asked.from, &error),
    };
    let again = Again {
        file,
        has_failed: false,
    };
    let mut input = buffered(console.alloc(), stream)?;
    match format_of(&mut input) {
        Ok(format) => sort_to(console, asked, format, input, again, output),
        Err(error) => tell_io(console, asked.from, &error),
    }
}

// Sorts a capture of this format, and returns the exit status. A file that is no capture counts as PcapNg.
fn sort_to<W: Write + Drop>(
    console: &Console,
    asked: Sorting<'_>,
    format: Format,
    input: Input,
    mut again: Again,
    output: W,
) -> io::Result<u8> {
    let alloc = console.alloc();
    let mut output = BufWriter::with_capacity(alloc, OUTPUT, output)?;
    let SortedBlocks { sorted, sections } = match format {
        Format::Pcap => SortedBlocks {
            sorted: sort_capture(alloc, input, &mut again, &mut output),
            sections: 1,
        },
        Format::PcapNg => sort_blocks(alloc, input, &mut again, &mut output),
    };
    let status = end_sort(console, asked, sorted, output)?;
    if status == 0 {
        tell_sections(console, asked.from, sections)?;
        tell_if_misnamed(console, asked.out, format)?;
    }
    Ok(status)
}

// Writes what is buffered of a sorted capture, or reports why it was not sorted, and returns the exit status.
fn end_sort<W: Write + Drop>(
    console: &Console,
    asked: Sorting<'_>,
    sorted: Sorted,
    mut output: BufWriter<W>,
) -> io::Result<u8> {
    match sorted {
        Sorted::Whole => match output.flush() {
            Ok(()) => Ok(0),
            Err(error) => tell_io(console, asked.out, &error),
        },
        sorted => tell_unsorted(console, asked, sorted),
    }
}

// Reports that the packets of each section were sorted by themselves, if there are several sections.
fn tell_sections(console: &Console, from: &str, sections: u64) -> io::Result<()> {
    if sections < 2 {
        return Ok(());
    }
    let shown = Shown(from);
    eprintln!(console.for_line();
        "pcapfile: {shown}: the capture has {sections} sections; the packets of each are in order of time"
    )
}

// Reports that the extension of the output's name stands for another format than its own, if it does.
fn tell_if_misnamed(console: &Console, out: &str, format: Format) -> io::Result<()> {
    let Some((_, extension)) = out.rsplit_once('.') else {
        return Ok(());
    };
    match format {
        Format::Pcap if PCAPNG_EXTENSIONS.contains(&extension) => {
            tell_misnamed(console, out, "pcap")
        }
        Format::PcapNg if PCAP_EXTENSIONS.contains(&extension) => {
            tell_misnamed(console, out, "PcapNg")
        }
        _ => Ok(()),
    }
}

// Reports why a capture was not sorted, and returns the exit status.
fn tell_unsorted(console: &Console, asked: Sorting<'_>, sorted: Sorted) -> io::Result<u8> {
    let from = asked.from;
    match sorted {
        Sorted::Whole => Ok(0),
        Sorted::Unopened(error) => tell_unopened(console, from, &error),
        Sorted::Refused(refusal) => tell_refused(console, asked, refusal),
        Sorted::TooLong => tell_exit(console, from, &Exit::Most),
        Sorted::Memory => tell_exit(console, from, &Exit::Memory),
        Sorted::Unread(error) => tell_unread(console, from, &error),
        Sorted::Changed => tell_changed_file(console, from),
        Sorted::Unwritten(error) => tell_error(console, asked.out, &error),
    }
}

// Reports at which byte a capture is refused or truncated, or why it can't be read, and returns the exit status.
fn tell_refused(console: &Console, asked: Sorting<'_>, refusal: Refusal) -> io::Result<u8> {
    let Refusal {
        byte,
        error,
        read_failed,
    } = refusal;
    let mut outcome = Outcome::none();
    outcome.fault = Some(error);
    outcome.read_failed = read_failed;
    tell_outcome(console, asked.from, byte, asked.out, &outcome)
}

// Reports why a packet can't be read again, and returns the exit status.
fn tell_unread(console: &Console, from: &str, error: &io::Error) -> io::Result<u8> {
    match error.kind() {
        ErrorKind::UnexpectedEof => tell_changed_file(console, from),
        _ => tell_io(console, from, error),
    }
}

// Reports that a capture has other bytes than before, and returns the exit status.
fn tell_changed_file(console: &Console, from: &str) -> io::Result<u8> {
    let shown = Shown(from);
    eprintln!(console.for_line();
        "pcapfile: {shown}: the file changed while it was read; sort it again when no program writes it"
    )?;
    Ok(FAILED)
}
