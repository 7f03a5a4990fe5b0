//! Reports of repairs, as lines or as a JSON object.

use crate::changes::{ChangeMessage, outcome_of, spot_of};
use crate::summary::{Outcome, Summary, Tally};
use pcap_damaged::Scrap;
use pcap_file::Rule;
use pcap_program::Uninterrupted;
use pcapfile_as_is::{Counted, Gap, Spot};
use pcapfile_files::{Console, Notes, OUTPUT, Shown, ShownJson};
use pcapfile_rows::Change;
use pcapfile_run::Format;
use serde_json::{Map, Value, put};
use std::alloc::{AllocError, Global};
use std::io::{BufWriter, Stdout, Write};
use std::{fmt, io};

/// How a repair reports its changes.
#[derive(Clone, Copy, Debug, PartialEq, Eq)]
pub enum Reporting {
    /// By lines on standard error, with a summary if there was damage.
    Damage,
    /// By lines on standard error, with a summary.
    Lines,
    /// By a JSON object on standard output.
    Json,
}

/// The output of a report. It is written in pieces, so that memory doesn't grow with the number of changes.
#[derive(Drop)]
enum Output {
    /// Lines on standard error.
    Lines(BufWriter<Notes>),
    /// A JSON object on standard output.
    Json(BufWriter<Uninterrupted<Stdout>>),
}

/// What a repair does.
#[derive(Clone, Copy)]
enum Action<'a> {
    /// It leaves out bytes.
    Skip(&'a Gap),
    /// It changes a length, or keeps a guess.
    Change(Change),
    /// It does what this text says.
    Text(&'a str),
}

/// A change that a repair makes.
#[derive(Clone, Copy)]
struct Entry<'a> {
    /// The number of the packet or block, if the change is about one.
    number: Option<u64>,
    /// The offset in the capture.
    place: u64,
    /// The rule that is broken, if any.
    rule: Option<Rule>,
    action: Action<'a>,
    /// Whether the change is a guess.
    is_guess: bool,
}

/// The report of a repair that goes on.
#[derive(Drop)]
pub(crate) struct Report {
    alloc: Global,
    output: Output,
    /// The text before each line.
    prefix: String,
    format: Format,
    reporting: Reporting,
    tally: Tally,
    /// Whether no change was written yet.
    is_first: bool,
    /// The first error of the output.
    error: Option<io::Error>,
}

impl fmt::Display for Action<'_> {
    fn fmt<W: fmt::Write>(&self, f: &mut fmt::Formatter<W>) -> fmt::Result {
        match self {
            Action::Skip(gap) => write!(f, "{gap}"),
            Action::Change(change) => {
                let message = ChangeMessage(*change);
                write!(f, "{message}")
            }
            Action::Text(text) => f.write_str(text),
        }
    }
}

impl Entry<'_> {
    // Writes the line of the change. `item` is the word for a packet or block.
    fn put_line<W: Write>(&self, output: &mut W, prefix: &str, item: &str) -> io::Result<()> {
        let (place, action) = (self.place, self.action);
        match (self.number, self.rule) {
            (Some(number), Some(rule)) => {
                let rule = rule.number();
                writeln!(
                    output,
                    "{prefix}{item} {number} at byte {place} breaks rule {rule}: {action}"
                )
            }
            (Some(number), None) => {
                writeln!(output, "{prefix}{item} {number} at byte {place}: {action}")
            }
            (None, Some(rule)) => {
                let (rule, text) = (rule.number(), rule.text());
                writeln!(output, "{prefix}{action} by rule {rule}: {text}")
            }
            (None, None) => writeln!(output, "{prefix}{action}"),
        }
    }

    // Returns the JSON object of the change.
    fn object(&self, alloc: Global) -> Result<Value, AllocError> {
        let action = self.action;
        let bytes = match action {
            Action::Skip(gap) => Some(gap.bytes),
            Action::Change(_) | Action::Text(_) => None,
        };
        let rule = self.rule.map(|rule| u64::from(rule.number()));
        let mut map = Map::new(alloc);
        put(&mut map, alloc, "number", number(self.number))?;
        put(&mut map, alloc, "offset", Value::from(self.place))?;
        put(&mut map, alloc, "skipped", number(bytes))?;
        put(&mut map, alloc, "rule", number(rule))?;
        put(
            &mut map,
            alloc,
            "action",
            Value::String(format!(in alloc; "{action}")?),
        )?;
        put(&mut map, alloc, "guess", Value::Bool(self.is_guess))?;
        Ok(Value::Object(map))
    }
}

impl Report {
    /// Begins the report on the capture with this name.
    pub(crate) fn open(
        console: &Console,
        name: &str,
        reporting: Reporting,
        tally: Tally,
        format: Format,
    ) -> io::Result<Report> {
        let alloc = console.alloc();
        let shown = Shown(name);
        let output = match reporting {
            Reporting::Damage | Reporting::Lines => {
                Output::Lines(BufWriter::with_capacity(alloc, OUTPUT, console.notes()?)?)
            }
            Reporting::Json => {
                let stdout = Uninterrupted::new(console.rt().stdout());
                Output::Json(BufWriter::with_capacity(alloc, OUTPUT, stdout)?)
            }
        };
        let mut report = Report {
            alloc,
            output,
            prefix: format!(in alloc; "pcapfile: {shown}: ")?,
            format,
            reporting,
            tally,
            is_first: true,
            error: None,
        };
        report.begin(name)?;
        Ok(report)
    }

    // Writes the beginning of the JSON object.
    fn begin(&mut self, name: &str) -> io::Result<()> {
        let Output::Json(output) = &mut self.output else {
            return Ok(());
        };
        let format = name_of(self.format);
        let name = Value::try_from_str(self.alloc, name)?.to_string(self.alloc)?;
        let name = ShownJson(name.as_str());
        write!(
            output,
            "{{\"file\":{name},\"format\":\"{format}\",\"changes\":["
        )
    }

    /// Reports what was done at the beginning of the capture.
    pub(crate) fn tell_opening(&mut self, text: &str, is_guess: bool) {
        self.tell(&Entry {
            number: None,
            place: 0,
            rule: None,
            action: Action::Text(text),
            is_guess,
        });
    }

    /// Reports bytes that are left out.
    pub(crate) fn tell_gap(&mut self, gap: &Gap) {
        self.tally.skip(gap.bytes);
        if let Scrap::PacketFront | Scrap::BlockFront = gap.scrap {
            self.tally.leave_out(1);
        }
        self.tell(&Entry {
            number: None,
            place: gap.place,
            rule: gap.rule,
            action: Action::Skip(gap),
            is_guess: false,
        });
    }

    /// Reports what becomes of a packet or block, when the reader is behind what is counted.
    pub(crate) fn tell_change(&mut self, change: Change, counted: &Counted) {
        let outcome = outcome_of(&change);
        match (change, outcome) {
            (Change::Unconfirmed(_), _) => self.tally.doubt_last(),
            (_, Some(outcome)) => self.tally.expect(outcome),
            (_, None) => {}
        }
        let Spot { number, place } = spot_of(&change, counted);
        self.tell(&Entry {
            number: Some(number),
            place,
            rule: None,
            action: Action::Change(change),
            is_guess: outcome == Some(Outcome::Guessed),
        });
    }

    /// Reports a change of the packet or block at this place, which breaks this rule, if one is known.
    pub(crate) fn tell_repair(&mut self, at: Spot, rule: Option<Rule>, text: &str) {
        self.tell(&Entry {
            number: Some(at.number),
            place: at.place,
            rule,
            action: Action::Text(text),
            is_guess: false,
        });
    }

    /// Counts a packet or block with this outcome.
    pub(crate) fn count(&mut self, outcome: Outcome) {
        self.tally.count(outcome);
    }

    /// Counts packets or blocks that are left out.
    pub(crate) fn leave_out(&mut self, items: u64) {
        self.tally.leave_out(items);
    }

    /// Writes the changes of a capture that was read to its end. Only a report on damage ends here.
    pub(crate) fn end_reading(&mut self) {
        if self.reporting == Reporting::Damage {
            self.put_summary();
        }
        self.flush();
    }

    /// Ends the report, and returns its summary. The errors are those of standard output.
    pub(crate) fn finish(&mut self) -> io::Result<Summary> {
        if self.reporting != Reporting::Damage {
            self.put_summary();
        }
        self.flush();
        match self.error.take() {
            // A failed message doesn't stop the repair.
            Some(error) if self.reporting == Reporting::Json => Err(error),
            _ => Ok(self.tally.summary()),
        }
    }

    // Writes a change.
    fn tell(&mut self, entry: &Entry<'_>) {
        let item = item_of(self.format);
        let told = match &mut self.output {
            Output::Lines(notes) => entry.put_line(notes, self.prefix.as_str(), item),
            Output::Json(output) => put_object(self.alloc, output, entry, self.is_first),
        };
        self.is_first = false;
        self.keep(told);
    }

    // Writes the end of the report.
    fn put_summary(&mut self) {
        let summary = self.tally.summary();
        let is_told = self.reporting != Reporting::Damage || summary.outcome() != Outcome::Kept;
        let told = match &mut self.output {
            Output::Lines(notes) if is_told => {
                let prefix = self.prefix.as_str();
                writeln!(notes, "{prefix}{summary}")
            }
            Output::Lines(_) => Ok(()),
            Output::Json(output) => put_end(output, &summary),
        };
        self.keep(told);
    }

    /// Writes what is buffered.
    pub(crate) fn flush(&mut self) {
        let flushed = match &mut self.output {
            Output::Lines(notes) => notes.flush(),
            Output::Json(output) => output.flush(),
        };
        self.keep(flushed);
    }

    // Keeps the first error.
    fn keep(&mut self, told: io::Result<()>) {
        if let Err(error) = told {
            if self.error.is_none() {
                self.error = Some(error);
            }
        }
    }
}

// Writes the JSON object of a change.
fn put_object<W: Write>(
    alloc: Global,
    output: &mut W,
    entry: &Entry<'_>,
    is_first: bool,
) -> io::Result<()> {
    let comma = if is_first { "" } else { "," };
    let object = entry.object(alloc)?.to_string(alloc)?;
    let object = ShownJson(object.as_str());
    write!(output, "{comma}{object}")
}

// Writes the end of the JSON object.
fn put_end<W: Write>(output: &mut W, summary: &Summary) -> io::Result<()> {
    let Summary {
        kept,
        repaired,
        guessed,
        left_out,
        skipped,
        ..
    } = *summary;
    let outcome = summary.outcome().name();
    writeln!(
        output,
        "],\"outcome\":\"{outcome}\",\"kept\":{kept},\"repaired\":{repaired},\"guessed\":{guessed},\"left_out\":{left_out},\"skipped\":{skipped}}}"
    )
}

// Returns a JSON number, or null.
fn number(number: Option<u64>) -> Value {
    match number {
        None => Value::Null,
        Some(number) => Value::from(number),
    }
}

// Returns the word for an item of a capture of this format.
fn item_of(format: Format) -> &'static str {
    match format {
        Format::Pcap => "packet",
        Format::PcapNg => "block",
    }
}

// Returns the name of a format.
fn name_of(format: Format) -> &'static str {
    match format {
        Format::Pcap => "pcap",
        Format::PcapNg => "pcapng",
    }
}
