//! Runs of the programs on inputs and outputs in memory, each as a row of a table describes it.
//!
//! A row is `WORDS | INPUT | STREAMS => OUTPUT => END`.
//!
//! - WORDS are the words of the run. `pcapfile list` selects that action, and other words select those of `capcopy`.
//! - INPUT has the bytes of the input: names of captures and digits. A text with semicolons has lines instead, which end where the
//!   semicolons are. `..40` at the end leaves only the first 40 bytes. `bytes_of` reads INPUT and OUTPUT.
//! - STREAMS says how the input and the output behave: `room=40` is an input with a buffer of 40 bytes. `Streams` describes each word. A
//!   row without `room=` is run with each size in `ROOMS`.
//! - OUTPUT has the bytes that the run must write, in the form of INPUT.
//! - END says how the run must end: its status, what it says of its streams, and its message. `told` writes it.
//!
//! In some tables `#` stands for each number below an end (`every_run_below`), or for a text (`every_run_of`).

use crate::captures::bytes_of;
use crate::streams::Streams;
use capcopy_run::{Message, run};
use pcap_classic::PcapError;
use pcap_program::{Exit, Uninterrupted};
use pcapfile_list::list;
use std::alloc::Global;
use std::io::{BufReader, BufWriter, ErrorKind, Read, Write};
use std::test::Fail;
use test_support::readers::Halting;
use test_support::writers::Narrow;

/// The sizes of an input's buffer, in bytes. The smaller ones split headers, packets and blocks everywhere.
const ROOMS: [usize; 5] = [1, 16, 17, 40, 65536];

// A row of a table, and the parts of its text.
#[derive(Clone, Copy)]
struct Row<'a> {
    text: &'a str,
    words: &'a str,
    input: &'a str,
    streams: Streams,
    output: &'a str,
    end: &'a str,
}

impl<'a> Row<'a> {
    // Reads a row. Returns None if a bar or an arrow is missing, or a word for the streams is unknown.
    fn of(text: &'a str) -> Option<Row<'a>> {
        let (given, wanted) = text.split_once("=>")?;
        let (output, end) = wanted.split_once("=>")?;
        let (words, given) = given.split_once('|')?;
        let (input, streams) = given.split_once('|')?;
        Some(Row {
            text,
            words: words.trim(),
            input,
            streams: Streams::of(streams)?,
            output,
            end: end.trim(),
        })
    }
}

/// Checks the run of each row of a table. A table must have a row.
pub(crate) fn every_run(alloc: Global, table: &str) -> Result<(), Fail> {
    if table.trim().is_empty() {
        return Err(Fail::new("a table without rows"));
    }
    for row in table.trim().lines() {
        with_each_room(alloc, Row::of(row).ok_or("a malformed row")?)?;
    }
    Ok(())
}

/// Does the same for each number below this one, which replaces `#` in the table.
pub(crate) fn every_run_below(alloc: Global, table: &str, end: u32) -> Result<(), Fail> {
    for number in 0..end {
        every_run_of(alloc, table, format!(in alloc; "{number}")?.as_str())?;
    }
    Ok(())
}

/// Does the same with this text in place of `#`.
pub(crate) fn every_run_of(alloc: Global, table: &str, text: &str) -> Result<(), Fail> {
    every_run(alloc, table.replace(alloc, "#", text)?.as_str())
}

// Checks the run of a row, with each size of the input's buffer if the row names none.
fn with_each_room(alloc: Global, row: Row) -> Result<(), Fail> {
    let input = bytes_of(alloc, row.input)?;
    let output = bytes_of(alloc, row.output)?;
    let words = words_of(alloc, row.words)?;
    let mut run = Run {
        row,
        words: words.as_slice(),
        input: input.as_slice(),
        output: output.as_slice(),
    };
    if row.streams.room > 0 {
        return run.check(alloc);
    }
    for room in ROOMS {
        run.row.streams.room = room;
        run.check(alloc)?;
    }
    Ok(())
}

// Returns the words of this text, which spaces separate.
fn words_of(alloc: Global, text: &str) -> Result<Vec<&str>, Fail> {
    let mut words = Vec::new(alloc);
    for word in text.split(' ') {
        if !word.is_empty() {
            words.push(word)?;
        }
    }
    Ok(words)
}

// A run of a row.
#[derive(Clone, Copy)]
struct Run<'a> {
    row: Row<'a>,
    words: &'a [&'a str],
    input: &'a [u8],
    output: &'a [u8],
}

impl Run<'_> {
    // Checks what the run writes, and how it ends.
    fn check(&self, alloc: Global) -> Result<(), Fail> {
        let streams = &self.row.streams;
        if streams.is_buffered {
            let narrow = Narrow::new(alloc, 1000, true);
            let mut output = BufWriter::with_capacity(alloc, 1000, narrow)?;
            let told = self.ends(alloc, &mut output)?;
            return self.agrees(told.as_str(), output.get_ref());
        }
        let is_idle = streams.kind == ErrorKind::WriteZero;
        let mut output = if streams.halts_at > 0 {
            Narrow::halting(alloc, streams.halts_at, is_idle)
        } else {
            Narrow::new(alloc, streams.space, false)
        };
        let told = self.ends(alloc, &mut output)?;
        self.agrees(told.as_str(), &output)
    }

    // Returns a failure if the run had to end or write otherwise, or to end at another call of the output.
    fn agrees(&self, told: &str, output: &Narrow) -> Result<(), Fail> {
        let (calls, halts_at) = (output.calls, self.row.streams.halts_at);
        let is_last = halts_at == 0 || calls == halts_at;
        if told.trim() == self.row.end && output.out.as_slice() == self.output && is_last {
            return Ok(());
        }
        let (len, room, row) = (output.out.len(), self.row.streams.room, self.row.text);
        Err(Fail::new(format_args!(
            "{told}, with {len} bytes in {calls} calls, behind {room}, at the row {row}"
        )))
    }

    // Runs the program, and tells how it ends.
    fn ends<W: Write>(&self, alloc: Global, output: &mut W) -> Result<String, Fail> {
        let streams = &self.row.streams;
        let mut stream = Halting::new(alloc, self.input, streams.step)?;
        stream.fails_at = streams.fails_at;
        stream.fails_for = streams.fails_for;
        stream.kind = streams.kind;
        let ended = if streams.repeats {
            self.exit(alloc, Uninterrupted::new(&mut stream), output)
        } else {
            self.exit(alloc, &mut stream, output)
        };
        let (exit, ahead) = ended?;
        stream.taken = stream.taken.saturating_sub(ahead);
        told(alloc, &exit, &stream)
    }

    // Returns the exit of the program over this input, and how many bytes are left in the input's buffer.
    fn exit<R: Read + Drop, W: Write>(
        &self,
        alloc: Global,
        input: R,
        output: &mut W,
    ) -> Result<(Exit, usize), Fail> {
        let streams = &self.row.streams;
        let mut input = BufReader::with_capacity(alloc, streams.room, input)?;
        let exit = if self.row.words == "pcapfile list" {
            list(alloc, None, &mut input, output, streams.most)
        } else {
            run(alloc, self.words, &mut input, output, streams.most)
        };
        Ok((exit, input.buffer().len()))
    }
}

// Tells the status of a run, what its end says of its streams, and the message of `capcopy` for it.
fn told(alloc: Global, exit: &Exit, input: &Halting) -> Result<String, Fail> {
    let (status, message) = (exit.status(), Message(exit));
    let (taken, ends, calls) = (input.taken, input.ends, input.calls);
    let told = match exit {
        Exit::Most => {
            format!(in alloc; "{status} after {taken} bytes and {ends} ends {message}")
        }
        Exit::Usage => format!(in alloc; "{status} after {calls} reads {message}"),
        Exit::Io(PcapError::IoError(error)) => {
            let kind = error.kind();
            format!(in alloc; "{status} {kind:?} {message}")
        }
        _ => format!(in alloc; "{status} {message}"),
    };
    Ok(told?)
}
