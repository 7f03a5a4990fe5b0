//! The words of the program, and their help.

ghost use Rattle.std.specs.Prelude.{◌≡◌};
ghost use Rattle.pcapfile_command.specs.Words.{IsWordOf, name_of, reads_repaired};

use crate::rows::{Row, Takes, argument};
use clap::Command;
use std::alloc::{AllocError, Global};

/// The argument that names the files of a word.
pub const FILES: &str = "FILE";

/// The argument that names the capture to convert.
pub const IN: &str = "IN";

/// The argument that names the capture to cut.
pub const CAPTURE: &str = "CAPTURE";

/// The argument that names the capture to repair.
pub const BROKEN: &str = "BROKEN";

/// The argument that names the parts to join.
pub const PARTS_IN: &str = "PART";

/// The option for the packets of a part.
pub const PACKETS: &str = "packets";

/// The option for the earliest time of a part.
pub const FROM: &str = "from";

/// The option for the time before which the packets of a part are.
pub const UNTIL: &str = "until";

/// The option that reads times without a zone in the system's zone.
pub const LOCAL: &str = "local";

/// The option for the least length on the wire.
pub const LEAST: &str = "min-len";

/// The option for the largest length on the wire.
pub const MOST: &str = "max-len";

/// The option for the number of an interface.
pub const INTERFACE: &str = "interface";

/// The option for the file with a filter.
pub const BPF: &str = "bpf";

/// The option for the number of packets before each with which it is compared.
pub const DEDUP: &str = "dedup";

/// The option for the most bytes of each packet.
pub const SNAPLEN: &str = "snaplen";

/// The option for the change of the packets' times.
pub const SHIFT: &str = "shift";

/// The option for times in nanoseconds.
pub const NANOSECONDS: &str = "nanoseconds";

/// The option for times in microseconds.
pub const MICROSECONDS: &str = "microseconds";

/// The option for the number of packets of each part.
pub const EVERY: &str = "every";

/// The option for the number of parts.
pub const PARTS: &str = "parts";

/// The option for the number of bytes of each part.
pub const BYTES: &str = "bytes";

/// The option for the number of seconds of each part.
pub const SECONDS: &str = "seconds";

/// The option to check the bodies of blocks.
pub const BODIES: &str = "bodies";

/// The option for lenient reading.
pub const AS_IS: &str = "as-is";

/// The option to read what `repair` would write of a capture.
pub const REPAIRED: &str = "repair";

/// The option for the header of a capture that has none.
pub const HEADER: &str = "header";

/// The option to guess the header of a capture that has none.
pub const GUESS: &str = "guess";

/// The option for the link type of a guessed header.
pub const LINK: &str = "link";

/// The option to read the captures in folders.
pub const RECURSIVE: &str = "recursive";

/// The option for JSON output.
pub const JSON: &str = "json";

/// The option for a table of captures.
pub const TABLE: &str = "table";

/// The option for totals over all captures.
pub const TOTAL: &str = "total";

/// The option for the digest of each file.
pub const HASH: &str = "hash";

/// The option that hides the progress.
pub const QUIET: &str = "quiet";

/// The option for the number of packets to list.
pub const COUNT: &str = "count";

/// The option to list times in UTC.
pub const UTC: &str = "utc";

/// The option to list packets as CSV.
pub const CSV: &str = "csv";

/// The option to list the bytes of packets.
pub const HEX: &str = "hex";

/// The option for the name of the output.
pub const OUT: &str = "output";

/// The option for the format of the output.
pub const TO: &str = "to";

/// The option to put captures one after another.
pub const APPEND: &str = "append";

const VERSION: &str = "0.2.0";

const STATUSES: &str = "Exit status:
  0    the work is done, and no error was found
  1    a capture is truncated or malformed, or a file is not a capture
  2    the arguments are wrong
  3    a file can't be opened or read, or the output can't be written
  4    memory ran out
  5    'repair' made a well-formed capture of a damaged one
  6    the same, and a part of it is a guess
  141  the reader of the output has gone";

const CHECK: &str =
    "Reports how many packets or blocks each capture has, or the byte at which a rule is broken.

The check reads the frames of PcapNg blocks, and the bodies of section headers and interfaces. With --bodies
it reads the bodies and options of all blocks.

With --as-is the check goes on after an error. Each flaw of a packet, a section or an interface has a
line with the index of the packet or block and the byte where it begins. Skipped bytes have a line too:
the check skips corrupt bytes, such as blocks with a malformed frame, and classic packets of more than
16777216 bytes. It goes on where 'pcapfile repair' does.

With --recursive FILE may be a folder. The command looks at each file in it, in the order of their names, and
at those of the folders below. It follows links to files, but not links to folders. It skips a file that
does not begin like a capture, unless an extension of its name is that of captures, as in x.pcap, x.cap2 or
x.pcapng.gz. Standard error says how many files it skips.";

const INFO: &str =
    "Reports what each capture contains: packets, bytes, times, rates, sizes, and packets over time.

The first line is that of check. Sizes and rates are those of the packets on the wire. Each line of
sizes has a bar. In the last line each sign is a span of time, and a taller sign means more packets.
The interfaces of PcapNg follow, with figures for each where there are several. Its other blocks are
counted by kind. A packet with a malformed body is counted only as malformed. The application, hardware
and operating system are those of the first section. Texts from a capture are quoted and escaped.

With --json each capture is one object on a line: file, format, check, status, bytes, packets,
original and stored (bytes), average, sizes (packets with fewer than 20 bytes, 40, 80 and so on),
earliest, latest and duration in seconds, in_order (no packet has a time before that of an earlier one),
packets_per_second, bytes_per_second, over_time (width of a span in nanoseconds, number of the first
span, packets of each), sections, refused, blocks (numbers of names, statistics, journal, secrets,
custom and unknown ones), application, hardware, os, comments, and interfaces with the same figures and
their name, description, hardware, os and comments. Headers give version and order, those of pcap also
resolution, snaplen, link, link_name and fcs_len (bytes of frame check sequence at the end of each packet).
Numbers with decimals are strings, and unknown values are null.

With --table each capture is a row of tab-separated columns below a row of their names: file, format,
packets, bytes, original, stored, earliest and latest in UTC, duration, average, packets_per_second,
bytes_per_second, interfaces (their number), link (type, or several), refused, status and check. Unknown
values are hyphens. With --total a last report has the sums over all captures that could be read.

With --hash each report has the SHA-256 digest of the file's bytes, also of those after an error: a line, the
member sha256, or a last column sha256.

With --packets, --from, --until, --min-len, --max-len, --interface or --bpf the report is that of the capture
that 'pcapfile cut' writes with the same tests.

With --recursive FILE may be a folder; 'pcapfile check --help' describes which files are read.";

const LIST: &str =
    "Writes a line for each packet: index, time, stored/original length, and for PcapNg the interface.

The time is in seconds since 1970 with nanoseconds, or - where the packet has none. A packet of PcapNg
with a malformed body has the line 'index refused', and the exit status is then 1. With several captures,
the name of each is written before its lines.

With --utc times are in UTC, as 2023-11-14T22:13:20.250000000Z. With --csv each packet is a row of
index, seconds, nanoseconds, captured, original (the lengths) and interface, below a row of these
names. Both together write one column, time, in place of seconds and nanoseconds. With --json each
packet is an object on a line of its own, with members of these names. Unknown values are empty, or
null. No names of captures are written, and each capture's index begins at 1.

With --packets, --from, --until, --min-len, --max-len, --interface or --bpf only the packets that pass all
tests have a line, with the index that they have in the capture. 'pcapfile cut --help' describes the tests.

With --hex rows of the stored bytes follow each line, and then an empty line. Rows are exactly those of
'tshark -x': an offset of at least four hexadecimal digits, two blanks, up to 16 bytes of two digits and a
blank each, filled up to 48 characters, two blanks, and the bytes as ASCII characters. A dot stands for
every byte that is not from 0x20 to 0x7e. --hex goes with -n and --utc, and with no other form.

With --as-is packets that break rules are listed too, followed by ! and the number of each rule, and
in PcapNg by !utf8 or !short for a value that is not UTF-8 or too short. A fraction of a second that
is too large is carried into the seconds. The list goes on where 'pcapfile repair' does, and reports
skipped bytes on standard error before it goes on.";

const QUIET_HELP: &str = "Shows no progress. Without it, commands show progress on a terminal";

const BODIES_HELP: &str = "Checks the bodies of all PcapNg blocks too, with their options";

const AS_IS_HELP: &str = "Goes on after an error, and reports each broken rule";

const RECURSIVE_HELP: &str = "Reads the captures in folders too, and in the folders below them";

const REPAIRED_HELP: &str =
    "Reads the capture as 'pcapfile repair' would write it, and reports each change";

const CONVERT: &str =
    "Writes a capture in the other format, or unchanged where it has that format already.

The format is that of --to, or of the extension of OUT (.pcap, .cap, .dmp, .pcapng or .ntar), or else the
one that IN doesn't have. A message says if the format and the extension differ.

A classic capture becomes one little-endian section with one interface and times in nanoseconds. A
PcapNg capture becomes a little-endian classic capture in nanoseconds, with the link type of its first
interface. What classic captures can't hold is left out and reported on standard error. The output is
written as OUT.part, and renamed to OUT when it is complete.

With --packets, --from, --until, --min-len, --max-len, --interface or --bpf the command converts the capture
that 'pcapfile cut' writes with the same tests.";

const CUT: &str = "Copies the chosen packets of a capture, or splits all of it into parts.

OUT gets the packets that pass all tests: --packets, --from, --until, --min-len, --max-len, --interface
and --bpf, except duplicates with --dedup. Headers and packets keep their bytes, unless --snaplen shortens
packets, --shift moves them, or --nanoseconds or --microseconds converts their times. With --every, --parts,
--bytes or --seconds the parts have a number of five digits before the extension of OUT, so that a shell
sorts them: OUT.pcap becomes OUT-00001.pcap, OUT-00002.pcap and so on. 'pcapfile join' restores the capture.
Each file is written as FILE.part, and renamed to FILE when it is complete. If the capture is truncated or
malformed, the parts before the error stay.

A TIME is 1700000000.25 (seconds since 1970), 2023-11-14, '2023-11-14 22:13:20.25' (in UTC, or with
--local in the system's zone), 2023-11-14T22:13:20.25+01:00, +10s, +1.5s or '+1h 30m' after the first packet,
or -10s, -1.5s or '-1h 30m' before the latest packet. For these the program reads the capture twice, so it
needs a file, and excludes --repair. A number without a unit, as -1.5, is in seconds before 1970.

A filter is a program of the classic BPF machine, as 'tcpdump -ddd EXPRESSION' prints it:

    pcapfile cut --bpf <(tcpdump -ddd 'udp port 53') in.pcap -o out.pcap

It sees the stored bytes of each packet, whatever its link type is. tcpdump makes programs for Ethernet
unless -y names another link type.

list, info, convert and merge take the same tests: they read what cut would write of each capture.";

const OUT_HELP: &str =
    "The output; - is standard output. A link is followed; a device or pipe is written to directly";

const PARTS_OUT_HELP: &str =
    "The output; - is standard output, for one part only. A link is followed";

const RANGE_HELP: &str =
    "The packets with these numbers, as list counts them: 10-20, 10-, -20, 10, or 1-5,10,100-";

const LEAST_HELP: &str = "Packets that had at least N bytes on the wire";

const MOST_HELP: &str = "Packets that had at most N bytes on the wire";

const INTERFACE_HELP: &str =
    "Packets of the interface with this number in its section, as list shows it; a classic capture has 0";

const BPF_HELP: &str =
    "Packets that the program in FILE accepts, as 'tcpdump -ddd' prints it; - is standard input";

const LOCAL_HELP: &str = "Reads a TIME without a zone in the system's zone";

const DEDUP_HELP: &str =
    "Leaves out a packet with the data and lengths of one of the N before it that pass all tests [4 without N]";

const SNAPLEN_HELP: &str =
    "At most the first N bytes of each packet; its length on the wire and the headers stay";

const SHIFT_HELP: &str =
    "Adds seconds to the time of each packet: 3600, -0.5 or '-1h 30m'; the tests see the time before";

const NANOSECONDS_HELP: &str =
    "A classic capture with times in nanoseconds; the tests see the times before";

const MICROSECONDS_HELP: &str = "A classic capture with times rounded down to microseconds";

/// The number of packets with which each is compared if the user gives none. editcap -d compares with as many.
const DEDUP_DEFAULT: &str = "4";

/// The most packets with which each is compared. Their digests take 32 megabytes.
const DEDUP_MOST: u64 = 1_000_000;

/// The options that name tests of packets.
pub const TESTS: &[&str] = &[PACKETS, FROM, UNTIL, LEAST, MOST, INTERFACE, BPF];

/// The options for several parts. None of them goes with an option that selects or changes packets.
const MANY: &[&str] = &[EVERY, PARTS, BYTES, SECONDS];

const PARTS_HELP: &str = "N parts of nearly equal length; needs a file, and excludes --repair";

const BYTES_HELP: &str =
    "Parts that end with the packet at which they reach SIZE bytes: 5000, 100K, 1M or 2G";

const SECONDS_HELP: &str =
    "Parts of N seconds each, from the first packet on, except parts without packets";

const JOIN: &str =
    "Writes the parts of a capture as one: the first part unchanged, then the packets of the others.

All parts must have the same header. Parts are read byte for byte, so there is no --repair. The output
is written as OUT.part, and renamed to OUT when it is complete.";

const MERGE: &str =
    "Writes the packets of several captures into one, ordered by time or one capture after another.

The format is that of --to, or of the extension of OUT (.pcap, .cap, .dmp, .pcapng or .ntar), or else PcapNg.

The next packet is always the earliest among the next packets of all captures. Of equal times, the
earlier capture on the command line goes first, and a packet without a time goes before all others.
With --append all packets and other blocks of a capture go after those of the captures before it on the
command line. Only the interfaces at the beginning of each capture go before all packets.

Each interface of each capture gets an interface of its own, and each packet keeps its comments and
other options. Names, statistics, secrets and other blocks go before the next packet of their capture.
Of big-endian captures only secrets, journal entries and custom blocks do, with their numbers in
little-endian order. Standard error says how many blocks and options of each kind are left out. If a
capture is malformed, its packets before the error are merged, and standard error gives the reason.
The output is written as OUT.part, and renamed to OUT when it is complete.

A classic capture becomes what 'pcapfile convert' makes of that PcapNg capture: little-endian, with times in
nanoseconds and the link type of the first interface. Packets without a place, other blocks and options are
left out, and standard error says how many of each.

With --packets, --from, --until, --min-len, --max-len, --interface or --bpf the command merges the captures
that 'pcapfile cut' writes with the same tests. The tests apply to each capture by itself.";

const APPEND_HELP: &str = "The captures one after another, and not ordered by time";

const SORT: &str = "Writes the packets of a capture in order of time.

Packets of equal times keep their order. The header and each packet record or block keep their bytes. The
capture is read twice, so IN is a file, and the program takes at most 64 bytes of memory for each packet
or block. If the capture is truncated or malformed, there is no output, and standard error gives the
reason. The output is written as OUT.part, and renamed to OUT when it is complete.

In a PcapNg capture each section is sorted by itself: first its header and the blocks without a packet,
then packets without a time, then packets with one. An interface has to be described before a packet, or
the packet has no time.";

const REPAIR: &str = "Reads a damaged capture and writes a well-formed one.

A fraction of a second that is too large is carried into the seconds, at most up to the latest time
that the format can hold. Only the first 262144 bytes of a longer packet are kept. An original length
is raised to the stored one, or lowered to 262144. Options of PcapNg whose values break rules are left
out. An interface that is too short is filled with zeros. Other blocks without room for what they
declare are left out, and sections declare no length. Everything else is unchanged.

Corrupt bytes are skipped up to the next section header, or up to two packets or blocks in a row that
break no rule. A truncated last block is completed if all data of its packet are there; any other
truncated last item is left out. Each change and each skip is reported on standard error with its byte
offset. The output is written as OUT.part, and renamed to OUT when it is complete.

The last line on standard error counts the packets, or for PcapNg the blocks, that were kept, repaired,
guessed and left out, and the bytes that were skipped. With --json standard output has one object in place
of these lines: file, format, changes, outcome (sound, repaired or guessed), kept, repaired, guessed,
left_out and skipped. Each change has number (of the packet or block), offset, skipped (bytes), rule,
action and guess; unknown values are null.";

const FILES_HELP: &str = "Captures; - is standard input";

const CHECK_ROWS: &[Row<'static>] = &[
    (FILES, Takes::Files, FILES_HELP, &[]),
    (RECURSIVE, Takes::FlagOr('r'), RECURSIVE_HELP, &[]),
    (BODIES, Takes::Flag, BODIES_HELP, &[AS_IS]),
    (AS_IS, Takes::Flag, AS_IS_HELP, &[]),
];

const INFO_ROWS: &[Row<'static>] = &[
    (FILES, Takes::Files, FILES_HELP, &[]),
    (RECURSIVE, Takes::FlagOr('r'), RECURSIVE_HELP, &[]),
    (JSON, Takes::Flag, "A JSON object for each capture", &[]),
    (
        TABLE,
        Takes::Flag,
        "A row of tab-separated values for each capture",
        &[JSON],
    ),
    (
        TOTAL,
        Takes::Flag,
        "Totals over all captures at the end",
        &[],
    ),
    (
        HASH,
        Takes::Flag,
        "The SHA-256 digest of each file's bytes; excludes tests of packets",
        TESTS,
    ),
    (REPAIRED, Takes::Flag, REPAIRED_HELP, &[]),
    (AS_IS, Takes::OldFlag, AS_IS_HELP, &[]),
];

const LIST_ROWS: &[Row<'static>] = &[
    (FILES, Takes::Files, FILES_HELP, &[]),
    (
        COUNT,
        Takes::CountOr('n'),
        "The first N packets of each capture",
        &[AS_IS],
    ),
    (UTC, Takes::Flag, "Times in UTC", &[JSON, AS_IS]),
    (
        CSV,
        Takes::Flag,
        "A row of comma-separated values for each packet",
        &[JSON, AS_IS],
    ),
    (JSON, Takes::Flag, "A JSON object for each packet", &[AS_IS]),
    (HEX, Takes::Flag, HEX_HELP, &[CSV, JSON, AS_IS]),
    (AS_IS, Takes::Flag, AS_IS_HELP, TESTS),
];

const CONVERT_ROWS: &[Row<'static>] = &[
    (
        IN,
        Takes::File,
        "The capture to read; - is standard input",
        &[],
    ),
    (TO, Takes::Format, CONVERT_TO_HELP, &[]),
    (REPAIRED, Takes::Flag, REPAIRED_HELP, &[]),
    (AS_IS, Takes::OldFlag, AS_IS_HELP, &[]),
    (OUT, Takes::Output, OUT_HELP, &[]),
];

const CUT_ROWS: &[Row<'static>] = &[
    (
        CAPTURE,
        Takes::File,
        "The capture to cut; - is standard input",
        &[],
    ),
    (
        DEDUP,
        Takes::NumberOr(DEDUP_DEFAULT, DEDUP_MOST),
        DEDUP_HELP,
        MANY,
    ),
    (SNAPLEN, Takes::Number(1, MOST_U32), SNAPLEN_HELP, MANY),
    (SHIFT, Takes::Signed("SECONDS"), SHIFT_HELP, MANY),
    (NANOSECONDS, Takes::Flag, NANOSECONDS_HELP, MANY),
    (
        MICROSECONDS,
        Takes::Flag,
        MICROSECONDS_HELP,
        &[NANOSECONDS, EVERY, PARTS, BYTES, SECONDS],
    ),
    (
        EVERY,
        Takes::Number(1, u64::MAX),
        "Parts of N packets",
        &[PARTS, BYTES, SECONDS],
    ),
    (
        PARTS,
        Takes::Number(1, u64::MAX),
        PARTS_HELP,
        &[EVERY, BYTES, SECONDS, REPAIRED, AS_IS],
    ),
    (
        BYTES,
        Takes::Text("SIZE"),
        BYTES_HELP,
        &[EVERY, PARTS, SECONDS],
    ),
    (
        SECONDS,
        Takes::Number(1, u64::MAX),
        SECONDS_HELP,
        &[EVERY, PARTS, BYTES],
    ),
    (REPAIRED, Takes::Flag, REPAIRED_HELP, &[]),
    (AS_IS, Takes::OldFlag, AS_IS_HELP, &[]),
    (OUT, Takes::Output, PARTS_OUT_HELP, &[]),
];

/// The tests of packets, of each command that selects packets.
const TEST_ROWS: &[Row<'static>] = &[
    (PACKETS, Takes::Ranges, RANGE_HELP, MANY),
    (
        FROM,
        Takes::Signed("TIME"),
        "Packets at this time and later",
        MANY,
    ),
    (
        UNTIL,
        Takes::Signed("TIME"),
        "Packets before this time",
        MANY,
    ),
    (LOCAL, Takes::Flag, LOCAL_HELP, &[]),
    (LEAST, Takes::Number(0, u64::MAX), LEAST_HELP, MANY),
    (MOST, Takes::Number(0, u64::MAX), MOST_HELP, MANY),
    (INTERFACE, Takes::Number(0, MOST_U32), INTERFACE_HELP, MANY),
    (BPF, Takes::Text("FILE"), BPF_HELP, MANY),
];

const JOIN_ROWS: &[Row<'static>] = &[
    (PARTS_IN, Takes::Files, "The parts, in order", &[]),
    (OUT, Takes::Output, OUT_HELP, &[]),
];

const MERGE_ROWS: &[Row<'static>] = &[
    (FILES, Takes::Files, FILES_HELP, &[]),
    (APPEND, Takes::Flag, APPEND_HELP, &[]),
    (TO, Takes::Format, MERGE_TO_HELP, &[]),
    (REPAIRED, Takes::Flag, REPAIRED_HELP, &[]),
    (AS_IS, Takes::OldFlag, AS_IS_HELP, &[]),
    (OUT, Takes::Output, OUT_HELP, &[]),
];

const SORT_ROWS: &[Row<'static>] = &[
    (IN, Takes::File, "The capture to sort", &[]),
    (OUT, Takes::Output, OUT_HELP, &[]),
];

const REPAIR_ROWS: &[Row<'static>] = &[
    (
        BROKEN,
        Takes::File,
        "The capture to repair; - is standard input",
        &[],
    ),
    (
        HEADER,
        Takes::Text("ORDER,RESOLUTION,LINK"),
        HEADER_HELP,
        &[GUESS, LINK],
    ),
    (GUESS, Takes::Flag, GUESS_HELP, &[]),
    (
        LINK,
        Takes::Number(0, MOST_U32),
        "The link type of a guessed header; 1 is Ethernet",
        &[],
    ),
    (
        JSON,
        Takes::Flag,
        "A report as a JSON object on standard output",
        &[],
    ),
    (OUT, Takes::Output, OUT_HELP, &[]),
];

const MOST_U32: u64 = 0xFFFF_FFFF;

const HEX_HELP: &str = "Rows of each packet's bytes after its line, as 'tshark -x' writes them";

const CONVERT_TO_HELP: &str =
    "The format of the output; without it, that of the extension of OUT, or the one that IN doesn't have";

const MERGE_TO_HELP: &str =
    "The format of the output; without it, that of the extension of OUT, or else pcapng";

const HEADER_HELP: &str =
    "The header of a capture without one, such as little,micro,1 or big,nano,101";

const GUESS_HELP: &str =
    "Guesses the header of a capture without one, and undoes a text-mode transfer";

/// A word of the program.
#[derive(Clone, Copy)]
pub enum Word {
    Check,
    Info,
    List,
    Convert,
    Cut,
    Join,
    Merge,
    Sort,
    Repair,
}

/// All words, in the order of the help.
const WORDS: [Word; 9] = [
    Word::Check,
    Word::Info,
    Word::List,
    Word::Convert,
    Word::Cut,
    Word::Join,
    Word::Merge,
    Word::Sort,
    Word::Repair,
];

impl Word {
    /// Returns the word of this name, if there is one.
    pub fn of_name(name: &str) -> Option<Word>
        ensures { IsWordOf name.now result }
    {
        for word in WORDS {
            if word.name() == name {
                return Some(word);
            }
        }
        None
    }

    /// Returns whether the word can read what `repair` would write of a capture.
    pub fn reads_repaired(self) -> bool
        ensures { result ≡ reads_repaired self }
    {
        match self {
            Word::Info | Word::Convert | Word::Cut | Word::Merge => true,
            Word::Check | Word::List | Word::Join | Word::Sort | Word::Repair => false,
        }
    }

    fn name<'a>(self) -> &'a str
        ensures { result.now ≡ name_of self }
    {
        match self {
            Word::Check => "check",
            Word::Info => "info",
            Word::List => "list",
            Word::Convert => "convert",
            Word::Cut => "cut",
            Word::Join => "join",
            Word::Merge => "merge",
            Word::Sort => "sort",
            Word::Repair => "repair",
        }
    }

    // Returns what the list of all words says of this one.
    fn summary<'a>(self) -> &'a str {
        match self {
            Word::Check =>
                "Counts packets or blocks, or says where a capture is truncated or malformed",
            Word::Info => "Summarizes captures: packets, bytes, times, rates, interfaces",
            Word::List => "Lists the packets of captures",
            Word::Convert => "Converts a capture to pcap or PcapNg",
            Word::Cut => "Copies the chosen packets of a capture, or splits it into parts",
            Word::Join => "Joins the parts of a capture",
            Word::Merge => "Merges captures into one, by time or one after another",
            Word::Sort => "Sorts the packets of a capture by time",
            Word::Repair => "Reads a damaged capture and writes a well-formed one",
        }
    }

    // Returns what the help of this word says first.
    fn help<'a>(self) -> &'a str {
        match self {
            Word::Check => CHECK,
            Word::Info => INFO,
            Word::List => LIST,
            Word::Convert => CONVERT,
            Word::Cut => CUT,
            Word::Join => JOIN,
            Word::Merge => MERGE,
            Word::Sort => SORT,
            Word::Repair => REPAIR,
        }
    }

    // Returns the arguments of this word, in the order of its help.
    fn rows<'a>(self) -> &'a [Row<'a>] {
        match self {
            Word::Check => CHECK_ROWS,
            Word::Info => INFO_ROWS,
            Word::List => LIST_ROWS,
            Word::Convert => CONVERT_ROWS,
            Word::Cut => CUT_ROWS,
            Word::Join => JOIN_ROWS,
            Word::Merge => MERGE_ROWS,
            Word::Sort => SORT_ROWS,
            Word::Repair => REPAIR_ROWS,
        }
    }

    // Returns the tests of packets that this word takes.
    fn tests<'a>(self) -> &'a [Row<'a>] {
        match self {
            Word::Info | Word::List | Word::Convert | Word::Cut | Word::Merge => TEST_ROWS,
            Word::Check | Word::Join | Word::Sort | Word::Repair => &[],
        }
    }

    // Returns the word with its arguments and its help. Its first argument names the captures, and the tests of packets follow.
    fn command<'a>(self, alloc: Global) -> Result<Command<'a>, AllocError> {
        let mut command = Command::new(alloc, self.name())
            .about(self.summary())
            .long_about(self.help())
            .after_help(STATUSES);
        for (place, row) in self.rows().iter().enumerate() {
            command = command.arg(argument(alloc, *row)?)?;
            if place == 0 {
                for test in self.tests() {
                    command = command.arg(argument(alloc, *test)?)?;
                }
            }
        }
        Ok(command)
    }
}

/// Returns the command line of the program.
pub fn command<'a>(alloc: Global) -> Result<Command<'a>, AllocError> {
    let mut command = program(alloc)?;
    for word in WORDS {
        command = command.subcommand(word.command(alloc)?)?;
    }
    Ok(command)
}

fn program<'a>(alloc: Global) -> Result<Command<'a>, AllocError> {
    let quiet = argument(alloc, (QUIET, Takes::FlagOr('q'), QUIET_HELP, &[]))?;
    Command::new(alloc, "pcapfile")
        .version(VERSION)
        .about(
            "Checks, lists, converts, cuts, joins, merges, sorts and repairs packet captures, pcap and PcapNg.",
        )
        .after_help(STATUSES)
        .subcommand_required(true)
        .arg_required_else_help(true)
        .arg(quiet.global(true))
}
