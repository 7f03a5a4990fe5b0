//! The task that the command line names.

use crate::sizes::size;
use clap::ArgMatches;
use pcapfile_command::words;
use pcapfile_command::words::Word;
use pcapfile_cut::{Changes, Range, Shift, TsResolution};
use pcapfile_files::{Console, Inputs, PCAP_EXTENSIONS, PCAPNG_EXTENSIONS, STANDARD};
use pcapfile_lines::Form;
use pcapfile_merge::PacketOrder;
use pcapfile_run::Format;
use pcapfile_selected::{Choice, Moment, Selecting, Zone, ranges, shift_of_text};
use pcapfile_words_check::{
    Checking, Informing, Listing, Reporting, check_files, inform_files, list_files,
};
use pcapfile_words_convert::{Conversion, Merge, convert_file, merge_files};
use pcapfile_words_cut::{Cutting, Joining, Sorting, Way, cut_file, join_files, sort_file};
use pcapfile_words_repair::{Repair, check_files_as_is, list_files_as_is, opening_of, repair_file};
use std::alloc::AllocError;
use std::io;

/// The forms of a list of numbers.
const RANGES: &str = "10-20, 10-, -20, 10, or a list of these as 1-5,10,100-";

/// The forms of a size.
const SIZES: &str = "5000, 100K, 1M or 2GB";

/// The forms of a time.
const TIMES: &str =
    "1700000000.25, 2023-11-14, '2023-11-14 22:13:20.25', 2023-11-14T22:13:20.25Z, +10s or -10s";

/// The forms of a change of times.
const SHIFTS: &str = "3600, -3600, +0.000001, '1h 30m' or '-1h 30m'";

/// The forms of a header.
const HEADERS: &str = "little,micro,1, with big for little, nano for micro, and any link type";

/// The forms of a link type.
const LINKS: &str = "a number, as 1 for Ethernet";

/// Why there is no task.
#[derive(Drop)]
pub(crate) enum Refusal {
    /// The argument with this name has a value that is in none of these forms.
    Value(&'static str, &'static str),
    /// The system's zone can't be read.
    Zone,
    /// Standard input is named more than once.
    Twice,
    /// Memory ran out.
    OutOfMemory(AllocError),
}

impl From<AllocError> for Refusal {
    fn from(error: AllocError) -> Refusal {
        Refusal::OutOfMemory(error)
    }
}

/// A word of the program with its arguments.
#[derive(Drop)]
pub(crate) enum Task<'a> {
    Check(Checking<'a>),
    /// A lenient check of these files.
    CheckAsIs(Inputs<'a>),
    Info(Informing<'a>),
    List(Listing<'a>),
    /// A lenient list of the packets of these files.
    ListAsIs(&'a [&'a str]),
    Convert(Conversion<'a>),
    Cut(Cutting<'a>),
    Join(Joining<'a>),
    Merge(Merge<'a>),
    Sort(Sorting<'a>),
    Repair(Repair<'a>),
}

impl<'a> Task<'a> {
    /// Returns the task of this word with these arguments.
    pub(crate) fn new(
        rt: &HostRuntime,
        word: Word,
        words: &'a ArgMatches<'_>,
    ) -> Result<Task<'a>, Refusal> {
        Ok(match word {
            Word::Check if words.get_flag(words::AS_IS) => Task::CheckAsIs(inputs(words)?),
            Word::Check => Task::Check(checking(words)?),
            Word::Info => Task::Info(informing(rt, words)?),
            Word::List if words.get_flag(words::AS_IS) => Task::ListAsIs(files(words)?),
            Word::List => Task::List(listing(rt, words)?),
            Word::Convert => Task::Convert(conversion(rt, words)?),
            Word::Cut => Task::Cut(cutting(rt, words)?),
            Word::Join => Task::Join(joining(words)?),
            Word::Merge => Task::Merge(merging(rt, words)?),
            Word::Sort => Task::Sort(sorting(words)),
            Word::Repair => Task::Repair(repairing(words)?),
        })
    }

    /// Returns whether the task writes lines for people while it reads; these lines show the progress.
    pub(crate) fn tells_meanwhile(&self) -> bool {
        matches!(
            self,
            Task::CheckAsIs(_)
                | Task::List(_)
                | Task::ListAsIs(_)
                | Task::Repair(Repair { as_json: true, .. })
        )
    }

    /// Returns the name of the output and its format, if the name's extension stands for another format.
    pub(crate) fn misnamed(&self) -> Option<(&'a str, &'static str)> {
        let (out, format) = match self {
            Task::Convert(asked) => (asked.out, asked.to?),
            Task::Merge(asked) => (asked.out, asked.to),
            _ => return None,
        };
        match (format_of_name(out)?, format) {
            (Format::PcapNg, Format::Pcap) => Some((out, "pcap")),
            (Format::Pcap, Format::PcapNg) => Some((out, "PcapNg")),
            _ => None,
        }
    }

    /// Returns how to read more of a truncated or malformed capture, if this task stops there.
    pub(crate) fn remedy(&self) -> Option<&'static str> {
        match self {
            Task::List(Listing { choice, .. }) if choice.selecting.is_some() => {
                Some("'pcapfile repair' writes a well-formed capture, which 'pcapfile list' reads")
            }
            Task::Check(_) | Task::List(_) => Some(
                "--as-is reads on after the error, and 'pcapfile repair' writes a well-formed capture",
            ),
            Task::Info(Informing { as_is: false, .. })
            | Task::Convert(Conversion { as_is: false, .. })
            | Task::Cut(Cutting { as_is: false, .. })
            | Task::Merge(Merge { as_is: false, .. }) => Some(
                "--repair reads on after the error, and 'pcapfile repair' writes a well-formed capture",
            ),
            Task::Join(_) => Some(
                "'pcapfile repair' writes a well-formed capture of the malformed part",
            ),
            Task::Sort(_) => Some(
                "'pcapfile repair' writes a well-formed capture, which 'pcapfile sort' reads",
            ),
            Task::CheckAsIs(_)
            | Task::ListAsIs(_)
            | Task::Info(_)
            | Task::Convert(_)
            | Task::Cut(_)
            | Task::Merge(_)
            | Task::Repair(_) => None,
        }
    }

    /// Runs the task, and returns the exit status.
    pub(crate) fn run(&self, console: &Console) -> io::Result<u8> {
        match self {
            Task::Check(asked) => check_files(console, *asked),
            Task::CheckAsIs(inputs) => check_files_as_is(console, *inputs),
            Task::Info(asked) => inform_files(console, asked),
            Task::List(asked) => list_files(console, asked),
            Task::ListAsIs(names) => list_files_as_is(console, names),
            Task::Convert(asked) => convert_file(console, asked),
            Task::Cut(asked) => cut_file(console, asked),
            Task::Join(asked) => join_files(console, asked),
            Task::Merge(asked) => merge_files(console, asked),
            Task::Sort(asked) => sort_file(console, *asked),
            Task::Repair(asked) => repair_file(console, asked),
        }
    }
}

// Returns whether the task reads what `repair` would write of the captures.
fn is_repaired(words: &ArgMatches) -> bool {
    words.get_flag(words::REPAIRED) || words.get_flag(words::AS_IS)
}

// Returns the names of the files that a command reads.
fn files<'a>(words: &'a ArgMatches<'_>) -> Result<&'a [&'a str], Refusal> {
    once(words.get_strs(words::FILES).unwrap_or_default())
}

// Returns these names of files. Refuses them if several are standard input, whose bytes can be read once.
fn once<'a>(names: &'a [&'a str]) -> Result<&'a [&'a str], Refusal> {
    let mut is_named = false;
    for name in names {
        if *name == STANDARD {
            if is_named {
                return Err(Refusal::Twice);
            }
            is_named = true;
        }
    }
    Ok(names)
}

// Returns the names of the files and folders that a command reads.
fn inputs<'a>(words: &'a ArgMatches<'_>) -> Result<Inputs<'a>, Refusal> {
    Ok(Inputs {
        names: files(words)?,
        is_recursive: words.get_flag(words::RECURSIVE),
    })
}

// Returns the format that the extension of a file's name stands for, if it stands for one.
fn format_of_name(name: &str) -> Option<Format> {
    let (_, extension) = name.rsplit_once('.')?;
    if PCAP_EXTENSIONS.contains(&extension) {
        return Some(Format::Pcap);
    }
    if PCAPNG_EXTENSIONS.contains(&extension) {
        return Some(Format::PcapNg);
    }
    None
}

// Returns the arguments of the word `convert`.
fn conversion<'a>(rt: &HostRuntime, words: &ArgMatches<'a>) -> Result<Conversion<'a>, Refusal> {
    let out = words.get_str(words::OUT).unwrap_or_default();
    Ok(Conversion {
        from: words.get_str(words::IN).unwrap_or_default(),
        to: format(words, out),
        out,
        as_is: is_repaired(words),
        choice: choice(rt, words)?,
    })
}

// Returns the format that `--to` names, or the extension of the output's name.
fn format(words: &ArgMatches, out: &str) -> Option<Format> {
    match words.get_str(words::TO) {
        Some("pcap") => Some(Format::Pcap),
        Some("pcapng") => Some(Format::PcapNg),
        _ => format_of_name(out),
    }
}

// Returns how to cut a capture.
fn way(words: &ArgMatches) -> Result<Way, Refusal> {
    if let Some(packets) = words.get_one::<u64>(words::EVERY) {
        return Ok(Way::Every(packets));
    }
    if let Some(parts) = words.get_one::<u64>(words::PARTS) {
        return Ok(Way::Parts(parts));
    }
    if let Some(seconds) = words.get_one::<u64>(words::SECONDS) {
        return Ok(Way::Seconds(seconds));
    }
    if let Some(text) = words.get_str(words::BYTES) {
        let size = size(text).ok_or(Refusal::Value(words::BYTES, SIZES))?;
        return Ok(Way::Bytes(size));
    }
    Ok(Way::One)
}

// Returns the packets that a command reads: all if no test is named.
fn choice<'a>(rt: &HostRuntime, words: &ArgMatches<'a>) -> Result<Choice<'a>, Refusal> {
    let has_tests = words::TESTS.iter().any(|test| words.contains_id(test));
    Ok(Choice {
        selecting: match has_tests {
            true => Some(selecting(rt, words)?),
            false => None,
        },
        bpf: words.get_str(words::BPF),
    })
}

// Returns the tests of packets.
fn selecting(rt: &HostRuntime, words: &ArgMatches) -> Result<Selecting, Refusal> {
    let zone = match words.get_flag(words::LOCAL) {
        true => Zone::local(rt).ok_or(Refusal::Zone)?,
        false => Zone::utc(rt.alloc()),
    };
    Ok(Selecting {
        numbers: numbers(rt, words)?,
        from: moment(words, words::FROM, &zone)?,
        until: moment(words, words::UNTIL, &zone)?,
        lengths: Range {
            first: words.get_one(words::LEAST).unwrap_or(Range::ALL.first),
            last: words.get_one(words::MOST).unwrap_or(Range::ALL.last),
        },
        interface: words.get_one(words::INTERFACE),
        dedup: words.get_one(words::DEDUP).unwrap_or(0),
        changes: Changes {
            snaplen: words.get_one(words::SNAPLEN),
            shift: shift(words)?,
            resolution: resolution(words),
        },
    })
}

// Returns the change of the packets' times.
fn shift(words: &ArgMatches) -> Result<Option<Shift>, Refusal> {
    let Some(text) = words.get_str(words::SHIFT) else {
        return Ok(None);
    };
    match shift_of_text(text) {
        Some(shift) => Ok(Some(shift)),
        None => Err(Refusal::Value(words::SHIFT, SHIFTS)),
    }
}

// Returns the resolution of the output, if one is asked for.
fn resolution(words: &ArgMatches) -> Option<TsResolution> {
    if words.get_flag(words::NANOSECONDS) {
        return Some(TsResolution::NanoSecond);
    }
    if words.get_flag(words::MICROSECONDS) {
        return Some(TsResolution::MicroSecond);
    }
    None
}

// Returns the ranges of the wanted packets' numbers.
fn numbers(rt: &HostRuntime, words: &ArgMatches) -> Result<Vec<Range>, Refusal> {
    let text = words.get_str(words::PACKETS).unwrap_or("1-");
    ranges::numbers(rt.alloc(), text)?.ok_or(Refusal::Value(words::PACKETS, RANGES))
}

// Returns the time that an argument names.
fn moment(words: &ArgMatches, name: &'static str, zone: &Zone) -> Result<Option<Moment>, Refusal> {
    let Some(text) = words.get_str(name) else {
        return Ok(None);
    };
    match Moment::of_text(text, zone) {
        Some(moment) => Ok(Some(moment)),
        None => Err(Refusal::Value(name, TIMES)),
    }
}

// Returns the arguments of the word `cut`.
fn cutting<'a>(rt: &HostRuntime, words: &ArgMatches<'a>) -> Result<Cutting<'a>, Refusal> {
    Ok(Cutting {
        from: words.get_str(words::CAPTURE).unwrap_or_default(),
        out: words.get_str(words::OUT).unwrap_or_default(),
        way: way(words)?,
        selecting: selecting(rt, words)?,
        bpf: words.get_str(words::BPF),
        as_is: is_repaired(words),
    })
}

// Returns the arguments of the word `join`.
fn joining<'a>(words: &'a ArgMatches<'_>) -> Result<Joining<'a>, Refusal> {
    Ok(Joining {
        parts: once(words.get_strs(words::PARTS_IN).unwrap_or_default())?,
        out: words.get_str(words::OUT).unwrap_or_default(),
    })
}

// Returns the arguments of the word `list`.
fn listing<'a>(rt: &HostRuntime, words: &'a ArgMatches<'_>) -> Result<Listing<'a>, Refusal> {
    Ok(Listing {
        names: files(words)?,
        form: form(words),
        most: words.get_one(words::COUNT),
        choice: choice(rt, words)?,
    })
}

// Returns the form of the lines of `list`.
fn form(words: &ArgMatches) -> Option<Form> {
    let utc = words.get_flag(words::UTC);
    if words.get_flag(words::HEX) {
        return Some(if utc { Form::UtcHex } else { Form::Hex });
    }
    if words.get_flag(words::CSV) {
        return Some(if utc { Form::UtcCsv } else { Form::Csv });
    }
    if words.get_flag(words::JSON) {
        return Some(Form::Json);
    }
    if utc { Some(Form::Utc) } else { None }
}

// Returns the arguments of the word `merge`.
fn merging<'a>(rt: &HostRuntime, words: &'a ArgMatches<'_>) -> Result<Merge<'a>, Refusal> {
    let out = words.get_str(words::OUT).unwrap_or_default();
    Ok(Merge {
        names: files(words)?,
        order: packet_order(words),
        to: format(words, out).unwrap_or(Format::PcapNg),
        out,
        as_is: is_repaired(words),
        choice: choice(rt, words)?,
    })
}

// Returns the order in which `merge` takes packets.
fn packet_order(words: &ArgMatches) -> PacketOrder {
    if words.get_flag(words::APPEND) {
        PacketOrder::ByFile
    } else {
        PacketOrder::ByTime
    }
}

// Returns the arguments of the word `sort`.
fn sorting<'a>(words: &ArgMatches<'a>) -> Sorting<'a> {
    Sorting {
        from: words.get_str(words::IN).unwrap_or_default(),
        out: words.get_str(words::OUT).unwrap_or_default(),
    }
}

// Returns the arguments of the word `check`.
fn checking<'a>(words: &'a ArgMatches<'_>) -> Result<Checking<'a>, Refusal> {
    Ok(Checking {
        inputs: inputs(words)?,
        bodies: words.get_flag(words::BODIES),
    })
}

// Returns the arguments of the word `info`.
fn informing<'a>(rt: &HostRuntime, words: &'a ArgMatches<'_>) -> Result<Informing<'a>, Refusal> {
    Ok(Informing {
        inputs: inputs(words)?,
        form: reporting(words),
        in_total: words.get_flag(words::TOTAL),
        with_digest: words.get_flag(words::HASH),
        as_is: is_repaired(words),
        choice: choice(rt, words)?,
    })
}

// Returns the form of the reports of `info`.
fn reporting(words: &ArgMatches) -> Reporting {
    if words.get_flag(words::JSON) {
        return Reporting::Json;
    }
    if words.get_flag(words::TABLE) {
        return Reporting::Table;
    }
    Reporting::Lines
}

// Returns the arguments of the word `repair`.
fn repairing<'a>(words: &ArgMatches<'a>) -> Result<Repair<'a>, Refusal> {
    let header = words.get_str(words::HEADER);
    let is_guess = words.get_flag(words::GUESS);
    let link = match words.get_one::<u64>(words::LINK) {
        None => None,
        Some(number) => Some(link_of(number)?),
    };
    Ok(Repair {
        from: words.get_str(words::BROKEN).unwrap_or_default(),
        out: words.get_str(words::OUT).unwrap_or_default(),
        opening: opening_of(header, is_guess, link).ok_or(Refusal::Value(words::HEADER, HEADERS))?,
        as_json: words.get_flag(words::JSON),
    })
}

fn link_of(number: u64) -> Result<u32, Refusal> {
    u32::try_from(number)
        .ok()
        .ok_or(Refusal::Value(words::LINK, LINKS))
}
