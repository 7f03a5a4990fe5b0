//! Rows of calls on streams and writers, as text.
//!
//! A row is `ROUNDS: CALL SETTINGS => RESULT, WRITTEN | COUNTS`:
//! - The rounds are numbers and ranges. The test tries the row once for each number n. In `5/34`, n is 5 and m is 34.
//! - The call has one of the names below.
//! - Each setting is a name and a word, or a name and a number, which may be n or m. `Case::set` and `Case::set_number` explain them. If a
//!   row leaves a setting out, it is that of `given=one step=200 room=1000 width=1000 fails=1 most=9 under=same`.
//! - The result depends on the call.
//! - What the call wrote is the beginning of a capture: its name, and how many bytes. If a row leaves it out, no call of the writer may
//!   have been made.
//! - `Case::has_count` explains the counts. A row may leave each of them out.
//!
//! The calls and their results are:
//! - `reader` makes a reader of the stream. `known` makes one of a stream that begins after the header. The result is what the reader
//!   gives, one by one: names of packets and errors, and `end` for nothing. `lent_` before a name says that the reader lends that item. At
//!   `put_wrong` and `put_fine` the test puts another magic number into the reader's header.
//! - `run` calls `read_pcap`. The result has the names of the packets, and then that of the error, or `end`.
//! - `copy` copies the stream to the writer. The result is how many packets it wrote, why it wrote no more, and which call failed.
//! - `header`, `packet_header` and `packet` read one part of a capture. The result is `given` for the header of the captures or of their
//!   packet, `another` for any other header, the name of the packet, or that of the error.
//! - `new_writer`, `write_header` and `write_packet_header` write one header. The result is `given` if they succeed, or the name of the
//!   error. `new_writer` must make a little-endian header in microseconds, or the result is `another_header`.
//! - `write` makes a writer with the header `under`, and then writes the stream's packet twice. The first of these writes must fail. The
//!   result is the name of its error: `Other` is that of a writer without space. The second must fail as `WriterFailed`.
//! - `told_reader` and `fill` read through a `Told` and a `Fill`, as the words of the result say (see `filling`).
//! - `told_writer` writes through a `Told`, as the words of the result say (see `failing`).
//!
//! A call that makes no reader, run or writer has the result `refused`, and the name of the error.

use crate::captures::capture_of;
use crate::failing::writer_tells;
use crate::filling::{fills_as, reader_tells};
use crate::names::{kind_of, name_of_item, name_of_outcome, name_of_value, packet_header};
use crate::scripts::{gives, is_copied, is_run, reads, writes};
use byteorder::BigEndian;
use pcap_classic::pcap::{Packet, PacketHeader, PcapHeader, PcapReader, PcapWriter};
use pcap_classic::run::{Copied, Under, copy_buffered, copy_pcap, read_pcap};
use pcap_classic::{Endianness, TsResolution};
use std::alloc::{AllocError, Global};
use std::io::BufReader;
use std::test::Fail;
use test_support::captures::{back, front};
use test_support::readers::Halting;
use test_support::writers::Narrow;

// One round of a row: its numbers, and the size of the buffer that a copy reads through. At 0 it reads the stream itself.
#[derive(Clone, Copy)]
struct Round {
    n: usize,
    m: usize,
    buffer: usize,
}

/// Returns a failure that names the row and the round if a row of the table doesn't hold.
pub fn every_row(alloc: Global, table: &str) -> Result<(), Fail> {
    rows_hold(alloc, table, "0")
}

/// Does the same through buffers of several sizes.
pub fn through_each_buffer(alloc: Global, table: &str) -> Result<(), Fail> {
    rows_hold(alloc, table, "0 1 7 24 40 100 65536")
}

/// Returns a table without the white space around it, or a failure if it has no rows.
pub fn filled(table: &str) -> Result<&str, Fail> {
    match table.trim() {
        "" => Err(Fail::from("a table without rows")),
        rows => Ok(rows),
    }
}

fn rows_hold(alloc: Global, table: &str, buffers: &str) -> Result<(), Fail> {
    for row in filled(table)?.lines() {
        if let Some(Round { n, m, buffer }) = wrong_round(alloc, row, buffers) {
            return Err(Fail::new(format_args!("{row} at {n}/{m} by {buffer}")));
        }
    }
    Ok(())
}

// A row without its rounds.
#[derive(Drop)]
struct Row<'a> {
    settings: &'a str,
    // The capture that the stream gives.
    given: Vec<u8>,
    told: &'a str,
    // The capture of which the beginning was written, and how many bytes. If the writer wasn't called, there is no number.
    gone: Vec<u8>,
    length: &'a str,
    counts: &'a str,
}

impl<'a> Row<'a> {
    fn new(alloc: Global, row: &'a str) -> Option<Row<'a>> {
        let (settings, told) = row.split_once(" => ")?;
        let (told, counts) = told.split_once(" | ").unwrap_or((told, ""));
        let (told, written) = told.split_once(", ").unwrap_or((told, "one "));
        let (gone, length) = written.split_once(' ')?;
        let given = capture_of(alloc, given_by(settings))?;
        Some(Row {
            settings,
            given,
            told,
            gone: capture_of(alloc, gone)?,
            length,
            counts,
        })
    }
}

// Returns the name of the capture that the stream gives.
fn given_by(settings: &str) -> &str {
    for word in settings.split_whitespace() {
        if let Some(name) = word.strip_prefix("given=") {
            return name;
        }
    }
    "one"
}

// The round of a row that names no rounds, or none that there are. Such a row doesn't hold.
const NO_ROUND: Round = Round {
    n: 0,
    m: 0,
    buffer: 0,
};

// Returns the first round in which a row doesn't hold.
fn wrong_round(alloc: Global, row: &str, buffers: &str) -> Option<Round> {
    let (rounds, row) = row.split_once(": ").unwrap_or(("", row));
    let Some(row) = Row::new(alloc, row) else {
        return Some(NO_ROUND);
    };
    let mut wrong = Some(NO_ROUND);
    for word in rounds.split_whitespace() {
        wrong = wrong_number(alloc, &row, numbers(word), buffers);
        if wrong.is_some() {
            break;
        }
    }
    wrong
}

// Does the same for numbers n, and m.
fn wrong_number(
    alloc: Global,
    row: &Row<'_>,
    numbers: Option<(usize, usize, usize)>,
    buffers: &str,
) -> Option<Round> {
    let Some((first, end, m)) = numbers else {
        return Some(NO_ROUND);
    };
    for n in first..end {
        let wrong = wrong_buffer(alloc, row, Round { n, m, buffer: 0 }, buffers);
        if wrong.is_some() {
            return wrong;
        }
    }
    None
}

// Returns the first and the end of the numbers n that this word states, and m.
fn numbers(word: &str) -> Option<(usize, usize, usize)> {
    let (first, end) = match word.split_once("..") {
        Some((first, end)) => (first.parse::<usize>().ok()?, end.parse::<usize>().ok()?),
        None => {
            let n = word.split_once('/').unwrap_or((word, "")).0;
            let n = n.parse::<usize>().ok()?;
            (n, n.saturating_add(1))
        }
    };
    let m = word.split_once('/').unwrap_or((word, "0")).1;
    if first < end {
        Some((first, end, m.parse::<usize>().ok()?))
    } else {
        None
    }
}

// Does the same for a round through each buffer.
fn wrong_buffer(alloc: Global, row: &Row<'_>, round: Round, buffers: &str) -> Option<Round> {
    for buffer in buffers.split_whitespace() {
        let buffer = buffer.parse::<usize>().unwrap_or(0);
        let round = Round { buffer, ..round };
        if !holds(alloc, row, round) {
            return Some(round);
        }
    }
    None
}

// Returns the number that a word states.
fn number(word: &str, round: Round) -> Option<usize> {
    match word {
        "n" => Some(round.n),
        "m" => Some(round.m),
        _ => word.parse::<usize>().ok(),
    }
}

// Returns whether the call of a row has the row's result in this round.
fn holds(alloc: Global, row: &Row<'_>, round: Round) -> bool {
    let Ok(mut case) = Case::new(alloc, row.given.as_slice(), round) else {
        return false;
    };
    let mut is_so = true;
    for word in row.settings.split_whitespace() {
        is_so &= case.set(word);
    }
    is_so && case.gives(alloc, row.told) && case.has_counts(row.counts) && case.wrote(row)
}

// A stream, a writer, and a call on them.
#[derive(Drop)]
struct Case<'a> {
    stream: Halting,
    output: Narrow,
    round: Round,
    // The name of the call.
    call: &'a str,
    // The name of the header with which a copy or a capture is written.
    under: &'a str,
    // The most packets of a run or a copy.
    most: u64,
}

impl<'a> Case<'a> {
    fn new(alloc: Global, given: &[u8], round: Round) -> Result<Case<'a>, AllocError> {
        Ok(Case {
            stream: Halting::new(alloc, given, 200)?,
            output: Narrow::new(alloc, 1000, true),
            round,
            call: "",
            under: "same",
            most: 9,
        })
    }

    // Makes one setting, or names the call. Returns whether there is such a setting.
    fn set(&mut self, word: &'a str) -> bool {
        let (name, value) = word.split_once('=').unwrap_or(("call", word));
        match name {
            "call" => self.call = value,
            "given" => {}
            "under" => self.under = value,
            "kind" => match kind_of(value) {
                Some(kind) => self.stream.kind = kind,
                None => return false,
            },
            _ => match number(value, self.round) {
                Some(n) => return self.set_number(name, n),
                None => return false,
            },
        }
        true
    }

    // Makes one setting of a number.
    fn set_number(&mut self, name: &str, n: usize) -> bool {
        match name {
            // the bytes before this one have been taken
            "start" => self.stream.taken = n,
            // the stream gives no more bytes than this
            "length" => self.stream.bytes.truncate(n),
            // the most bytes of one read, and the number of the stream's call that fails
            "step" => self.stream.step = n,
            "fails_at" => self.stream.fails_at = n,
            "buffer" => self.round.buffer = n,
            "most" => self.most = n as u64,
            // the writer's space in all and per call, and whether it then fails or takes nothing
            "room" => self.output.room = n,
            "width" => self.output.step = n,
            "fails" => self.output.fails = n == 1,
            // the number of the writer's call that is interrupted, and of the one that takes nothing
            "interrupted" => self.output.interrupted = n as u64,
            "idle" => self.output.idle = n as u64,
            _ => return false,
        }
        true
    }

    // Makes the call, and returns whether it has this result. No read is offered more space than the packet needs, except to fill a buffer.
    fn gives(&mut self, alloc: Global, told: &str) -> bool {
        match self.call {
            "copy" => self.copies(alloc, told),
            "reader" => reads(alloc, &mut self.stream, told) && self.stream.most_room <= 98,
            "told_reader" => reader_tells(&mut self.stream, told),
            "told_writer" => { writer_tells(&mut self.output, self.stream.bytes.as_slice(), told) }
            "fill" => fills_as(alloc, &mut self.stream, told),
            "known" => self.reads_on(alloc, told),
            "run" => self.runs(alloc, told) && self.stream.most_room <= 98,
            "header" | "packet_header" | "packet" => {
                self.part_read(alloc) == told && self.stream.most_room <= 98
            }
            "write" => self.writes_twice(told),
            _ => self.part_written() == told,
        }
    }

    // Writes the packet of the stream twice, under the header of the row.
    fn writes_twice(&mut self, told: &str) -> bool {
        let bytes = back(self.stream.bytes.as_slice(), 40);
        match header_of(self.under) {
            Some(header) => writes(header, &mut self.output, bytes, told),
            None => false,
        }
    }

    // Reads packets under a header that the stream doesn't give.
    fn reads_on(&mut self, alloc: Global, told: &str) -> bool {
        let header = PcapHeader::default();
        gives(
            &mut PcapReader::with_header(alloc, header, &mut self.stream),
            told,
        )
    }

    fn runs(&mut self, alloc: Global, told: &str) -> bool {
        let read = read_pcap(alloc, &mut self.stream, self.most);
        is_run(&read, told)
    }

    fn copies(&mut self, alloc: Global, told: &str) -> bool {
        matches!(&self.copy(alloc), Some(copied) if is_copied(copied, told))
    }

    // Copies from the stream, or through a buffer. The bytes that the buffer read ahead are not taken.
    fn copy(&mut self, alloc: Global) -> Option<Copied> {
        let under = under_of(self.under)?;
        let output = &mut self.output;
        if self.round.buffer == 0 {
            return Some(copy_pcap(alloc, &mut self.stream, output, under, self.most));
        }
        let mut reader = BufReader::with_capacity(alloc, self.round.buffer, &mut self.stream).ok()?;
        let copied = copy_buffered(alloc, &mut reader, output, under, self.most);
        let ahead = reader.buffer().len();
        let stream = reader.into_inner();
        stream.taken = stream.taken.saturating_sub(ahead);
        Some(copied)
    }

    // Reads a part of a capture by itself, and returns its name.
    fn part_read(&mut self, alloc: Global) -> &'static str {
        let stream = &mut self.stream;
        let micro = TsResolution::MicroSecond;
        match self.call {
            "header" => name_of_value(&PcapHeader::from_reader(stream), &PcapHeader::default()),
            "packet_header" => name_of_value(
                &PacketHeader::from_reader::<_, BigEndian>(stream, micro),
                &packet_header(),
            ),
            _ => name_of_item(&Some(Packet::from_reader::<_, BigEndian>(alloc, stream, micro))),
        }
    }

    // Writes a part of a capture by itself, and returns the name of the error.
    fn part_written(&mut self) -> &'static str {
        let output = &mut self.output;
        match self.call {
            "write_header" => {
                name_of_outcome(&PcapHeader::default().write_to::<_, BigEndian>(output))
            }
            "write_packet_header" => name_of_outcome(&packet_header().write_to::<_, BigEndian>(
                output,
                TsResolution::MicroSecond,
            )),
            "new_writer" => match &PcapWriter::new(output) {
                Ok(plain) if plain.header.magic_number != 0xd4c3b2a1 => "another_header",
                outcome => name_of_outcome(outcome),
            },
            _ => "no call has this name",
        }
    }

    fn has_counts(&self, counts: &str) -> bool {
        let mut is_so = true;
        for count in counts.split_whitespace() {
            is_so &= self.has_count(count);
        }
        is_so
    }

    fn has_count(&self, count: &str) -> bool {
        let (name, value) = count.split_once('=').unwrap_or((count, ""));
        let wanted = number(value, self.round);
        let seen = match name {
            "taken" => self.stream.taken,
            "reads" => self.stream.calls,
            // the largest buffer that a call of the stream was given
            "room" => self.stream.most_room,
            "ends" => self.stream.ends,
            // the calls that were given a buffer that began with a zero, as a new buffer does
            "clear" => self.stream.clear,
            "writes" => self.output.calls as usize,
            "most_reads" => self.stream.calls.max(wanted.unwrap_or(0)),
            _ => return false,
        };
        wanted == Some(seen)
    }

    // Returns whether the bytes of the row were written, or the writer wasn't called.
    fn wrote(&self, row: &Row<'_>) -> bool {
        let out = self.output.out.as_slice();
        let is_length = match number(row.length, self.round) {
            Some(length) => out.len() == length,
            None => row.length.is_empty() && self.output.calls == 0,
        };
        is_length && out == front(row.gone.as_slice(), out.len())
    }
}

// Returns the header of this name: that of the captures, or one that differs from it in its magic number.
fn header_of(name: &str) -> Option<PcapHeader> {
    let mut header = PcapHeader::default();
    header.magic_number = match name {
        "same" => header.magic_number,
        "wrong" => 0,
        "fine" => 0x4d3cb2a1,
        _ => return None,
    };
    Some(header)
}

// Returns the header of this name under which a copy is written.
fn under_of(name: &str) -> Option<Under> {
    match name {
        "same" => Some(Under::Same),
        "big_micro" => Some(Under::Order(Endianness::Big, TsResolution::MicroSecond)),
        "little_micro" => Some(Under::Order(Endianness::Little, TsResolution::MicroSecond)),
        "little_nano" => Some(Under::Order(Endianness::Little, TsResolution::NanoSecond)),
        "wrong" => Some(Under::Header(header_of("wrong")?)),
        _ => None,
    }
}
