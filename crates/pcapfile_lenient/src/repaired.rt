//! Captures that are repaired while they are read.

ghost use Rattle.std.specs.Prelude.{None};

use crate::changes::LeftOutHeads;
use crate::noted::{NotedBlocks, NotedPackets, rules_of};
use crate::report::{Report, Reporting};
use crate::standing::{BlockRows, FileRows, PacketRows, Standing, Stop};
use crate::summary::{Outcome, Summary, Tally};
use pcap_file::{Endianness, PcapError, ResultParsing, TsResolution};
use pcap_program::Exit;
use pcapfile_as_is::{BlockRepairs, Counted, Position, Repairs, Spot};
use pcapfile_files::{Console, Watched};
use pcapfile_rows::{FirstSection, Found, Guessed, HEADER, Opening};
use pcapfile_run::Format;
use std::alloc::{AllocError, Global};
use std::io::{ErrorKind, Read};
use std::{io, str};

/// The room for the messages on a packet or block, in bytes. They need no more memory, so that none is lost.
const NOTES: usize = 1_024;

/// The message on a text-mode transfer that is undone.
const UNDONE: &str =
    "its line ends are undone: a text-mode transfer turned each LF into CR LF; bytes are counted without these CRs";

/// The message on blocks at the beginning that are left out.
const NO_SECTION: &str =
    "begins with blocks that have no section header; 'pcapfile repair --guess' or --header keeps them";

/// The number of bytes that are produced at once, to which the rest of the last packet or block is added.
const ENOUGH: usize = 65_536;

/// The packets that are repaired.
#[derive(Drop)]
struct RepairedPackets {
    rows: PacketRows,
    repairs: NotedPackets<Repairs<Vec<u8>>>,
}

/// The blocks that are mended.
#[derive(Drop)]
struct RepairedBlocks {
    rows: BlockRows,
    repairs: NotedBlocks<BlockRepairs<Vec<u8>>>,
}

/// The items that are repaired.
#[derive(Drop)]
enum Making {
    Packets(RepairedPackets),
    Blocks(RepairedBlocks),
}

/// A packet or block that was produced.
#[derive(Clone, Copy)]
struct Item {
    at: Spot,
    /// Whether it was changed or left out.
    is_changed: bool,
    /// Whether it was left out.
    is_left_out: bool,
}

/// A capture repaired while it is read, which has no flaws. It reports what it changes or leaves out.
pub struct Repaired {
    alloc: Global,
    /// The producer of more bytes. It is `None` after the end, and after an error that ended the capture early.
    making: Option<Making>,
    /// The bytes that were produced last.
    made: Vec<u8>,
    /// The number of these bytes that were read.
    given: usize,
    /// The position in the original capture, and the number of left-out bytes that were reported.
    position: Position,
    /// The number of changes that were reported.
    changed: u64,
    /// The number of packets of other link types that were counted.
    others: u64,
    report: Report,
}

// It is written out, so that crates above this one call it and prove no drop of the fields.
impl Drop for Repaired {
    fn drop(self) {
        let Repaired {
            alloc: _,
            making: _,
            made: _,
            given: _,
            position: _,
            changed: _,
            others: _,
            report: _,
        } = self;
    }
}

impl RepairedPackets {
    // Produces the next packet, if one follows in its row.
    fn make(
        self,
        alloc: Global,
        made: &mut Vec<u8>,
        counted: &mut Counted,
    ) -> Result<RepairedPackets, Exit> {
        let RepairedPackets { rows, mut repairs } = self;
        match rows.tell(alloc, &mut repairs, made, 1, counted) {
            Ok(rows) => Ok(RepairedPackets { rows, repairs }),
            Err(stop) => Err(exit_of(stop)),
        }
    }

    // Reports what became of a packet.
    fn tell(&mut self, report: &mut Report, item: Item) {
        if item.is_changed {
            let rules = match self.repairs.flaws {
                Some(flaws) => rules_of(flaws),
                None => [None; 3],
            };
            let mut rules = rules.into_iter().flatten();
            let notes = &mut self.repairs.teller.notes;
            for line in str::from_utf8(notes.as_slice()).unwrap_or_default().lines() {
                report.tell_repair(item.at, rules.next(), action_in(line));
            }
            notes.clear();
        }
        report.count(outcome_if(item.is_changed));
    }
}

impl RepairedBlocks {
    // Produces the next block, if one follows in its row.
    fn make(
        self,
        alloc: Global,
        made: &mut Vec<u8>,
        counted: &mut Counted,
    ) -> Result<RepairedBlocks, Exit> {
        let RepairedBlocks { rows, mut repairs } = self;
        match rows.tell(alloc, &mut repairs, made, 1, counted) {
            Ok(rows) => Ok(RepairedBlocks { rows, repairs }),
            Err(stop) => Err(exit_of(stop)),
        }
    }

    // Reports what became of a block.
    fn tell(&mut self, report: &mut Report, item: Item) -> Result<(), AllocError> {
        if item.is_changed {
            let rule = self.repairs.rule?;
            let notes = &mut self.repairs.teller.notes;
            for line in str::from_utf8(notes.as_slice()).unwrap_or_default().lines() {
                report.tell_repair(item.at, rule, action_in(line));
            }
            notes.clear();
        }
        if item.is_left_out {
            report.leave_out(1);
        } else if self.rows.rows().is_guess() {
            report.count(Outcome::Guessed);
        } else {
            report.count(outcome_if(item.is_changed && !self.repairs.is_sound_section));
        }
        Ok(())
    }
}

impl RepairedBlocks {
    // Produces a section header that is no block of the capture.
    fn make_header(self, alloc: Global, made: &mut Vec<u8>) -> io::Result<RepairedBlocks> {
        let mut uncounted = Position::new(0).counted;
        match self.make(alloc, made, &mut uncounted) {
            Ok(blocks) => Ok(blocks),
            Err(exit) => Err(io_error(exit)),
        }
    }
}

impl Making {
    fn of_packets(alloc: Global, rows: PacketRows) -> Result<Making, AllocError> {
        let teller = Repairs {
            order: rows.endianness(),
            prefix: String::new(alloc),
            notes: Vec::with_capacity(alloc, NOTES)?,
            room: Vec::new(alloc),
        };
        let repairs = NotedPackets {
            teller,
            flaws: None,
        };
        Ok(Making::Packets(RepairedPackets { rows, repairs }))
    }

    // Returns the blocks of these rows, and the header of their section if it is written.
    fn of_blocks(
        alloc: Global,
        rows: BlockRows,
        section: FirstSection,
    ) -> io::Result<(Making, Vec<u8>)> {
        let teller = BlockRepairs {
            prefix: String::new(alloc),
            notes: Vec::with_capacity(alloc, NOTES)?,
            body: Vec::new(alloc),
            text: Vec::new(alloc),
        };
        let repairs = NotedBlocks {
            teller,
            rule: Ok(None),
            is_sound_section: false,
        };
        let mut blocks = RepairedBlocks { rows, repairs };
        let mut made = Vec::new(alloc);
        if let FirstSection::Written(_) = section {
            blocks = blocks.make_header(alloc, &mut made)?;
        }
        Ok((Making::Blocks(blocks), made))
    }

    fn format(&self) -> Format {
        match self {
            Making::Packets(_) => Format::Pcap,
            Making::Blocks(_) => Format::PcapNg,
        }
    }

    // Produces the next packet or block, if one follows in its row.
    fn make(
        self,
        alloc: Global,
        made: &mut Vec<u8>,
        counted: &mut Counted,
    ) -> Result<Making, Exit> {
        match self {
            Making::Packets(packets) => Ok(Making::Packets(packets.make(alloc, made, counted)?)),
            Making::Blocks(blocks) => Ok(Making::Blocks(blocks.make(alloc, made, counted)?)),
        }
    }

    // Returns the rows that the items come from.
    fn rows(&self) -> &FileRows {
        match self {
            Making::Packets(packets) => packets.rows.rows(),
            Making::Blocks(blocks) => blocks.rows.rows(),
        }
    }

    // Reports what became of an item.
    fn tell(&mut self, report: &mut Report, item: Item) -> Result<(), AllocError> {
        match self {
            Making::Packets(packets) => packets.tell(report, item),
            Making::Blocks(blocks) => return blocks.tell(report, item),
        }
        Ok(())
    }
}

impl Repaired {
    /// Returns the repaired form of the capture with this name. The errors are those of the beginning of the capture.
    pub fn new(console: &Console, name: &str, stream: Watched) -> ResultParsing<Repaired> {
        Repaired::opened_as(console, name, stream, Opening::Own, Reporting::Damage)
    }

    /// Returns the same, with a given or guessed header if the capture has none, and with this report.
    pub fn opened_as(
        console: &Console,
        name: &str,
        stream: Watched,
        opening: Opening,
        reporting: Reporting,
    ) -> ResultParsing<Repaired> {
        let alloc = console.alloc();
        let (standing, found) = Standing::open_as(alloc, stream, opening)?;
        let first = match (opening, &found.guessed) {
            (Opening::Guess(_), None) | (Opening::Own, _) => HEADER as u64,
            _ => 0,
        };
        let (making, made, bytes) = match standing {
            Standing::Packets(made, rows) => (Making::of_packets(alloc, rows)?, made, first),
            Standing::Blocks(rows) => {
                let (making, made) = Making::of_blocks(alloc, rows, found.section)?;
                (making, made, 0)
            }
            Standing::Neither(_, error) => return Err(error),
        };
        let format = making.format();
        let tally = Tally::new(format, outcome_at(opening, &found, format));
        let mut report = Report::open(console, name, reporting, tally, format)?;
        tell_found(alloc, &mut report, &found)?;
        tell_section(alloc, &mut report, opening, found.section)?;
        Ok(Repaired {
            alloc,
            making: Some(making),
            made,
            given: 0,
            position: Position::new(bytes),
            changed: 0,
            others: 0,
            report,
        })
    }

    /// Ends the report, and returns what was kept, changed and left out. The errors are those of standard output.
    pub fn finish(&mut self) -> io::Result<Summary> {
        self.report.finish()
    }

    /// Returns the next bytes of the repaired capture, or none at its end.
    pub fn next_bytes(&mut self) -> io::Result<&[u8]> {
        if self.given >= self.made.len() {
            let made = self.make_more();
            if made.is_err() {
                self.report.flush();
            }
            made?;
        }
        Ok(self.made.get(self.given..).unwrap_or_default())
    }

    /// Consumes this many of these bytes.
    pub fn pass(&mut self, bytes: usize) {
        self.given = self.given.saturating_add(bytes);
    }

    // Produces more bytes, and replaces those produced before.
    fn make_more(&mut self) -> io::Result<()> {
        self.made.clear();
        self.given = 0;
        for _ in 0..u64::MAX {
            let Some(making) = self.making.take() else {
                break;
            };
            self.tell_row(making.rows())?;
            if making.rows().is_at_end() {
                self.report.end_reading();
                break;
            }
            let making = self.make_item(making)?;
            self.making = Some(making);
            if self.made.len() >= ENOUGH {
                self.report.flush();
                break;
            }
        }
        Ok(())
    }

    // Reports what was left out or changed before the next item.
    fn tell_row(&mut self, rows: &FileRows) -> Result<(), AllocError> {
        if let Some(gap) = self.position.pass(rows.left_out()) {
            self.report.tell_gap(&gap);
        }
        let others = rows.others();
        if others > self.others {
            self.report.leave_out(others - self.others);
            self.others = others;
        }
        let changed = rows.changed();
        if changed.count > self.changed {
            self.changed = changed.count;
            if let Some(change) = changed.last {
                self.report.tell_change(change, &self.position.counted);
            }
            self.made.extend_from_slice(rows.descriptions())?;
        }
        Ok(())
    }

    // Produces the next packet or block, if one follows in its row, and reports what became of it.
    fn make_item(&mut self, making: Making) -> io::Result<Making> {
        let before = self.position.counted;
        let len = self.made.len();
        let counted = &mut self.position.counted;
        let mut making = match making.make(self.alloc, &mut self.made, counted) {
            Ok(making) => making,
            Err(exit) => return Err(io_error(exit)),
        };
        let now = self.position.counted;
        if now.items > before.items {
            let at = Spot {
                number: before.items.saturating_add(1),
                place: before.bytes,
            };
            let item = Item {
                at,
                is_changed: now.flawed > before.flawed,
                is_left_out: self.made.len() == len,
            };
            making.tell(&mut self.report, item)?;
        }
        Ok(making)
    }
}

impl Read for Repaired {
    ghost remaining = { λ repaired. None };

    fn read(&mut self, buf: &mut [u8]) -> io::Result<usize> {
        let bytes = self.next_bytes()?;
        let len = bytes.len().min(buf.len());
        buf[..len].copy_from_slice(&bytes[..len]);
        self.pass(len);
        Ok(len)
    }
}

// Returns the exit of a row that ended with an error.
fn exit_of(stop: Stop) -> Exit {
    match stop {
        Stop::Unread(error) => Exit::from(error),
        Stop::Untold(exit) => exit,
    }
}

// Returns what a line says, without the number and the place before it.
fn action_in(line: &str) -> &str {
    match line.split_once(": ") {
        Some((_place, action)) => action,
        None => line,
    }
}

// Returns the outcome of a packet or block, which may be damaged.
fn outcome_if(is_damaged: bool) -> Outcome {
    if is_damaged {
        Outcome::Repaired
    } else {
        Outcome::Kept
    }
}

// Returns what became of the beginning of a capture.
fn outcome_at(opening: Opening, found: &Found, format: Format) -> Outcome {
    let is_written = match format {
        Format::Pcap => found.guessed.is_some() || matches!(opening, Opening::Given(_)),
        Format::PcapNg => matches!(found.section, FirstSection::Written(_)),
    };
    match opening {
        Opening::Guess(_) if is_written => Outcome::Guessed,
        _ => outcome_if(is_written || found.is_undone || found.variant.is_some()),
    }
}

// Reports what was found at the beginning of the capture.
fn tell_found(alloc: Global, report: &mut Report, found: &Found) -> Result<(), AllocError> {
    if found.is_undone {
        report.tell_opening(UNDONE, false);
    }
    if let Some(variant) = found.variant {
        let left_out = LeftOutHeads(variant);
        let text = format!(in alloc; "{left_out}")?;
        report.tell_opening(text.as_str(), false);
    }
    if let Some(guessed) = &found.guessed {
        let text = text_of(alloc, guessed)?;
        report.tell_opening(text.as_str(), true);
    }
    Ok(())
}

// Reports what became of the first section header of a PcapNg capture.
fn tell_section(
    alloc: Global,
    report: &mut Report,
    opening: Opening,
    section: FirstSection,
) -> Result<(), AllocError> {
    let order = match section {
        FirstSection::Found => return Ok(()),
        FirstSection::Lost => {
            report.tell_opening(NO_SECTION, false);
            return Ok(());
        }
        FirstSection::Written(Endianness::Little) => "little",
        FirstSection::Written(Endianness::Big) => "big",
    };
    let (how, is_guess) = match opening {
        Opening::Given(_) => ("as --header gives it", false),
        _ => ("which is a guess", true),
    };
    let text = format!(in alloc;
        "its section header is lost: one of byte order {order} is written, {how}"
    )?;
    report.tell_opening(text.as_str(), is_guess);
    Ok(())
}

// Returns the message on a guessed header.
fn text_of(alloc: Global, guessed: &Guessed) -> Result<String, AllocError> {
    let order = match guessed.order {
        Endianness::Big => "big",
        Endianness::Little => "little",
    };
    let resolution = match guessed.resolution {
        TsResolution::MicroSecond => "micro",
        TsResolution::NanoSecond => "nano",
    };
    let link = guessed.link;
    let how = if guessed.is_link_assumed {
        ", which is assumed"
    } else {
        ""
    };
    format!(in alloc;
        "its header is a guess: {order},{resolution},{link}, of link type {link}{how}"
    )
}

fn io_error(exit: Exit) -> io::Error {
    match exit {
        Exit::Io(PcapError::IoError(error)) => error,
        Exit::Memory => io::Error::from(AllocError),
        _ => io::Error::from(ErrorKind::InvalidData),
    }
}
