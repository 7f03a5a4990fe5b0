//! The word `cut`.

use pcap_filter::Filter;
use pcap_parts::to_next_end;
use pcapfile_cut::{Outcome, Wanted};
use pcapfile_files::{
    Console, OUTPUT, STANDARD, Shown, USAGE, buffered, tell_io, unnumbered, write_named,
};
use pcapfile_lenient::{Captured, tell_unopened};
use pcapfile_run::{Format, format_of};
use pcapfile_selected::{
    BlockSource, PacketSource, Selecting, Source, Spans, Tests, flushed, load_filter,
    tell_exceptions, tell_outcome, tests_of,
};
use std::alloc::Global;
use std::io::{BufWriter, Read, Write};
use std::{fs, io};

/// The arguments of `cut`.
#[derive(Drop)]
pub struct Cutting<'a> {
    /// The name of the capture to cut.
    pub from: &'a str,
    /// The name of the part, or the pattern for the names of several parts.
    pub out: &'a str,
    /// The way to cut it.
    pub way: Way,
    /// The tests of the packets of a single part.
    pub selecting: Selecting,
    /// The name of the file with the filter of a single part, if there is one.
    pub bpf: Option<&'a str>,
    /// Whether the program cuts what `repair` would write.
    pub as_is: bool,
}

/// The ways to cut a capture.
#[derive(Clone, Copy)]
pub enum Way {
    /// One part, with the selected packets.
    One,
    /// Parts of this many packets each.
    Every(u64),
    /// This many parts of nearly the same length.
    Parts(u64),
    /// Parts that each end with the packet at which they have this many bytes.
    Bytes(u64),
    /// Parts of this many seconds each, from the first packet that has a time.
    Seconds(u64),
}

/// A position in the capture.
#[derive(Clone, Copy)]
struct CutProgress {
    /// The length of the opening, in bytes.
    opening: u64,
    /// The number of bytes after the opening that were read.
    passed: u64,
    /// The number of bytes after the opening; 0 if that isn't known.
    length: u64,
    /// The spans of time of the parts, if these end by time.
    spans: Option<Spans>,
}

impl Way {
    // Returns which of the next packets make a part whose opening has this many bytes, if it does not end by time. Each part gets at least
    // one packet.
    fn wanted<'a>(self, opening: u64, progress: CutProgress) -> Wanted<'a> {
        match self {
            Way::One | Way::Seconds(_) => Wanted::All,
            Way::Every(packets) => Wanted::Numbers {
                first: 1,
                last: packets.max(1),
            },
            Way::Bytes(bytes) => Wanted::Bytes(bytes.saturating_sub(opening).max(1)),
            Way::Parts(parts) => next_share(progress, parts),
        }
    }

    // Returns the spans of time of the parts, if these end by time.
    fn spans(self) -> Option<Spans> {
        match self {
            Way::Seconds(seconds) => Some(Spans::new(seconds)),
            Way::One | Way::Every(_) | Way::Parts(_) | Way::Bytes(_) => None,
        }
    }

    fn is_many(self) -> bool {
        !matches!(self, Way::One)
    }
}

// Returns the packets up to the end of the next of `parts` nearly equal shares, or all packets for the last share.
fn next_share<'a>(progress: CutProgress, parts: u64) -> Wanted<'a> {
    match to_next_end(
        progress.passed as usize,
        progress.length as usize,
        parts as usize,
    ) {
        Some(bytes) => Wanted::Bytes(bytes as u64),
        None => Wanted::All,
    }
}

/// Cuts a capture, and returns the exit status.
pub fn cut_file(console: &Console, asked: &Cutting) -> io::Result<u8> {
    if let (STANDARD, Way::Parts(_)) = (asked.from, asked.way) {
        return tell_no_length(console);
    }
    if asked.way.is_many() {
        if let Some(reason) = unnumbered(console, asked.out) {
            let out = Shown(asked.out);
            eprintln!(console.for_line(); "error: {out}: {reason}")?;
            return Ok(USAGE);
        }
    }
    match load_filter(console, asked.bpf, &[asked.from])? {
        Ok(filter) => cut_capture(console, asked, filter.as_ref()),
        Err(status) => Ok(status),
    }
}

fn cut_capture(console: &Console, asked: &Cutting, filter: Option<&Filter>) -> io::Result<u8> {
    let tests = match tests_of(console, asked.from, asked.as_is, &asked.selecting, filter)? {
        Ok(tests) => tests,
        Err(status) => return Ok(status),
    };
    match Captured::open(console, asked.from, asked.as_is) {
        Ok(capture) => match (capture.length(), asked.way) {
            (None, Way::Parts(_)) => tell_no_length(console),
            (length, _) => cut_stream(console, asked, tests, capture, length.unwrap_or_default()),
        },
        Err(error) => tell_unopened(console, asked.from, &error),
    }
}

// Reports that `--parts` needs a file with a known length, and returns the exit status.
fn tell_no_length(console: &Console) -> io::Result<u8> {
    eprintln!(console.for_line();
        "error: --parts needs a file, because it needs the length of the input"
    )?;
    Ok(USAGE)
}

// Reports that a PcapNg capture has no resolution that can be changed, and returns the exit status.
fn tell_no_resolution(console: &Console, from: &str) -> io::Result<u8> {
    let from = Shown(from);
    eprintln!(console.for_line();
        "error: --nanoseconds and --microseconds are for classic captures, and {from} is PcapNg; 'pcapfile convert' writes it in nanoseconds"
    )?;
    Ok(USAGE)
}

fn cut_stream<R: Read + Drop>(
    console: &Console,
    asked: &Cutting,
    tests: Tests<'_>,
    stream: R,
    length: u64,
) -> io::Result<u8> {
    let mut input = buffered(console.alloc(), stream)?;
    match format_of(&mut input) {
        Err(error) => tell_io(console, asked.from, &error),
        Ok(Format::Pcap) => match PacketSource::new(input) {
            Ok(mut packets) => cut_source(console, asked, tests, &mut packets, length),
            Err(error) => tell_unopened(console, asked.from, &error),
        },
        Ok(Format::PcapNg) if asked.selecting.changes.resolution.is_some() => {
            tell_no_resolution(console, asked.from)
        }
        Ok(Format::PcapNg) => match BlockSource::new(console.alloc(), input) {
            Ok(mut blocks) => cut_source(console, asked, tests, &mut blocks, length),
            Err(error) => tell_unopened(console, asked.from, &error),
        },
    }
}

fn cut_source<S: Source>(
    console: &Console,
    asked: &Cutting,
    tests: Tests<'_>,
    source: &mut S,
    length: u64,
) -> io::Result<u8> {
    let opening = source.opening_len();
    let mut progress = CutProgress {
        opening,
        passed: 0,
        length: length.saturating_sub(opening),
        spans: asked.way.spans(),
    };
    if !asked.way.is_many() {
        let status = write_selected(console, asked, tests, source, progress)?;
        tell_exceptions(console, asked.from, source.exceptions())?;
        return Ok(status);
    }
    for number in 1..u64::MAX {
        let name = part_name(console.alloc(), asked.out, number)?;
        let status = write_part(console, asked, name.as_str(), source, &mut progress)?;
        if status != 0 {
            return Ok(status);
        }
        match source.is_at_end() {
            Ok(true) => return tell_earlier(console, asked, number.saturating_add(1)),
            Ok(false) => {}
            Err(error) => return tell_io(console, asked.from, &error),
        }
    }
    Ok(0)
}

// Reports that a part of an earlier run has the number behind the last part, if there is one, since a pattern such as `out-*.pcap` names it
// too.
fn tell_earlier(console: &Console, asked: &Cutting, number: u64) -> io::Result<u8> {
    let name = part_name(console.alloc(), asked.out, number)?;
    if fs::symlink_metadata(console.rt(), name.as_str()).is_ok() {
        let (name, from) = (Shown(name.as_str()), Shown(asked.from));
        eprintln!(console.for_line();
            "pcapfile: {name}: is left from an earlier run, and is no part of {from}"
        )?;
    }
    Ok(0)
}

// Returns the name of a part: its number, in five digits or more, is before the extension of the given name.
fn part_name(alloc: Global, out: &str, number: u64) -> io::Result<String> {
    let (folder, file) = match out.rsplit_once('/') {
        Some((folder, file)) => (Some(folder), file),
        None => (None, out),
    };
    let name = match file.rsplit_once('.') {
        Some((stem, extension)) if !stem.is_empty() => {
            format!(in alloc; "{stem}-{number:05}.{extension}")?
        }
        _ => format!(in alloc; "{file}-{number:05}")?,
    };
    match folder {
        Some(folder) => Ok(format!(in alloc; "{folder}/{name}")?),
        None => Ok(name),
    }
}

// Writes the part with the selected packets, and returns the exit status.
fn write_selected<S: Source>(
    console: &Console,
    asked: &Cutting,
    tests: Tests<'_>,
    source: &mut S,
    progress: CutProgress,
) -> io::Result<u8> {
    let read = [asked.from, asked.bpf.unwrap_or(asked.from)];
    write_named(console, asked.out, &read, |output| {
        let written = select_to(console.alloc(), tests, source, output);
        tell_written(console, asked, asked.out, progress, &written)
    })
}

fn select_to<S: Source, W: Write + Drop>(
    alloc: Global,
    tests: Tests<'_>,
    source: &mut S,
    output: W,
) -> io::Result<Outcome> {
    let mut output = BufWriter::with_capacity(alloc, OUTPUT, output)?;
    let outcome = source.write_selected(alloc, &mut output, tests);
    Ok(flushed(&mut output, outcome))
}

// Writes one part, and returns the exit status. The position moves past the bytes that were read.
fn write_part<S: Source>(
    console: &Console,
    asked: &Cutting,
    name: &str,
    source: &mut S,
    progress: &mut CutProgress,
) -> io::Result<u8> {
    write_named(console, name, &[asked.from], |output| {
        let written = write_to(console.alloc(), asked.way, source, progress, output);
        let told = tell_written(console, asked, name, *progress, &written);
        if let Ok(outcome) = &written {
            progress.passed = progress.passed.saturating_add(outcome.bytes);
        }
        told
    })
}

fn write_to<S: Source, W: Write + Drop>(
    alloc: Global,
    way: Way,
    source: &mut S,
    progress: &mut CutProgress,
    output: W,
) -> io::Result<Outcome> {
    let mut output = BufWriter::with_capacity(alloc, OUTPUT, output)?;
    let wanted = way.wanted(source.opening_len(), *progress);
    let outcome = match &mut progress.spans {
        Some(spans) => {
            spans.begin();
            source.write_span(alloc, &mut output, spans)
        }
        None => source.write_part(alloc, &mut output, wanted, way.is_many()),
    };
    Ok(flushed(&mut output, outcome))
}

fn tell_written(
    console: &Console,
    asked: &Cutting,
    name: &str,
    progress: CutProgress,
    written: &io::Result<Outcome>,
) -> io::Result<u8> {
    match written {
        Ok(outcome) => {
            let byte = progress.opening.saturating_add(progress.passed);
            tell_outcome(console, asked.from, byte, name, outcome)
        }
        Err(error) => tell_io(console, name, error),
    }
}
