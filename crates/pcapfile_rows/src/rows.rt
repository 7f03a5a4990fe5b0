//! Rows of packets or blocks in a capture, without the corrupt bytes between them.

ghost use Rattle.std.specs.Prelude.{◌≡◌, None};
ghost use Rattle.pcapfile_rows.specs.Rows.{changed_of, descriptions_of, is_at_end, is_link_guessed, left_out_of, others_of};

use crate::change::{Change, Changed};
use crate::describing::{Describing, Next};
use crate::frames::mend_frame;
use crate::in_force::InForce;
use crate::lost::{Lost, section_text};
use crate::numbers::SHORTEST;
use crate::packets::{HEADER, Here, LIMIT, Packets};
use crate::stored::{is_oversized, is_zero_packet, mend_stored};
use crate::torn::complete_last;
use crate::window::{Sought, WINDOW, Window};
use pcap_damaged::{LeftOut, Scrap};
use pcap_file::pcap::PcapHeader;
use pcap_file::{PcapError, ResultParsing, Rule};
use pcap_tolerant_captures::first_blocks;
use std::alloc::{AllocError, Global};
use std::io;
use std::io::{BufRead, Read};

/// The first bytes of a section header.
pub(crate) const SECTION: [u8; 4] = [0x0A, 0x0D, 0x0D, 0x0A];

/// The kind of the items in a capture.
#[derive(Drop)]
enum Kind {
    /// Packets.
    Packets(Packets),
    /// Blocks, after what is in force before them.
    Blocks(InForce),
}

/// What is at the front of blocks.
#[derive(Clone, Copy)]
enum Front {
    /// A block of this many bytes.
    Block(usize),
    /// The beginning of a possible block, with at least this many bytes missing.
    Missing(usize),
    /// Corrupt bytes, and the rule that they break, if any.
    Garbage(Option<Rule>),
}

/// The next step of a search for an item.
#[derive(Clone, Copy)]
enum Step {
    /// The item is ready, or the row ends here.
    Done,
    /// The search goes on.
    Further,
}

/// The packets or blocks of a capture that follow each other in a row. A read returns no byte at the end of a row, which is at corrupt
/// bytes or at the end of the capture. Corrupt bytes are skipped, and the next read goes on after them.
pub struct Rows<R> {
    alloc: Global,
    kind: Kind,
    window: Window<R>,
    /// The number of buffered bytes that belong to a packet or block.
    ready: usize,
    /// The whole text of the last block, if its end was missing, when the window is empty; or of a first section header that was lost.
    last: Vec<u8>,
    /// The number of bytes of this text that were read.
    given: usize,
    /// How undescribed interfaces are described.
    describing: Describing,
    left_out: LeftOut,
    /// The last change, and how many there are so far.
    changed: Changed,
    /// Whether the next block was reported as a guess.
    is_reported: bool,
    /// Whether the last packets were left out for their link type, or blocks for their interface.
    is_leaving_out: bool,
    /// The number of packets that were left out for their link type, and of blocks for their interface.
    others: u64,
    /// Whether nothing follows.
    is_at_end: bool,
}

// It is written out, so that crates above this one call it and prove no drop of the fields.
impl<R: Drop> Drop for Rows<R> {
    fn drop(self) {
        let Rows {
            alloc: _,
            kind: _,
            window: _,
            ready: _,
            last: _,
            given: _,
            describing: _,
            left_out: _,
            changed: _,
            is_reported: _,
            is_leaving_out: _,
            others: _,
            is_at_end: _,
        } = self;
    }
}

impl Kind {
    // Returns the items to look for after corrupt bytes.
    fn sought(&self) -> Sought<'_> {
        match self {
            Kind::Packets(packets) => Sought::Packets(packets.parser(), packets.time_by(None)),
            Kind::Blocks(in_force) => Sought::Blocks(in_force.order()),
        }
    }

    // Returns the word for corrupt bytes.
    fn garbage(&self) -> Scrap {
        match self {
            Kind::Packets(_) => Scrap::NoPackets,
            Kind::Blocks(_) => Scrap::NoBlocks,
        }
    }

    // Returns the word for the last bytes if an item is truncated.
    fn torn(&self) -> Scrap {
        match self {
            Kind::Packets(_) => Scrap::PacketFront,
            Kind::Blocks(_) => Scrap::BlockFront,
        }
    }
}

impl<R: BufRead + Drop> Rows<R> {
    /// Returns the rows of the packets that the window shows next, read by a parser with the header.
    pub(crate) fn of_packets(
        alloc: Global,
        header: PcapHeader,
        window: Window<R>,
    ) -> ResultParsing<Rows<R>> {
        let kind = Kind::Packets(Packets::new(header)?);
        Ok(Rows::new(alloc, kind, window, Describing::off(alloc)))
    }

    /// Returns the rows of the blocks from the first section header in the window on, and leaves out what is before it. If there is none,
    /// the errors are those of the first bytes.
    pub(crate) fn of_blocks(
        alloc: Global,
        mut window: Window<R>,
        describing: Describing,
    ) -> ResultParsing<Rows<R>> {
        let refusal = match open(alloc, &mut window) {
            Ok((in_force, len)) => {
                let mut rows = Rows::new(alloc, Kind::Blocks(in_force), window, describing);
                rows.ready = len;
                return Ok(rows);
            }
            Err(error) => error,
        };
        if let PcapError::OutOfMemory(_) | PcapError::IoError(_) = &refusal {
            return Err(refusal);
        }
        let passed = window.pass_to(Sought::Section)?;
        if !passed.is_found {
            return Err(refusal);
        }
        let (in_force, len) = first_section(alloc, window.shown())?;
        let mut rows = Rows::new(alloc, Kind::Blocks(in_force), window, describing);
        rows.ready = len;
        rows.leave_out(passed.bytes, Scrap::NoBlocks, refusal.rule());
        Ok(rows)
    }

    /// Returns the rows of blocks whose section header is lost, after a header that is written for them.
    pub(crate) fn of_lost(
        alloc: Global,
        lost: Lost,
        mut window: Window<R>,
        describing: Describing,
    ) -> ResultParsing<Rows<R>> {
        let text = section_text(alloc, lost.order)?;
        let (in_force, len) = first_section(alloc, text.as_slice())?;
        window.pass(lost.place);
        let mut rows = Rows::new(alloc, Kind::Blocks(in_force), window, describing);
        rows.last = text;
        rows.ready = len;
        rows.leave_out(lost.place as u64, Scrap::NoBlocks, None);
        Ok(rows)
    }
}

impl<R> Rows<R> {
    fn new(alloc: Global, kind: Kind, window: Window<R>, describing: Describing) -> Rows<R> {
        let left_out = LeftOut {
            bytes: 0,
            scrap: kind.garbage(),
            rule: None,
        };
        Rows {
            alloc,
            kind,
            window,
            ready: 0,
            last: Vec::new(alloc),
            given: 0,
            describing,
            left_out,
            changed: Changed {
                count: 0,
                last: None,
            },
            is_reported: false,
            is_leaving_out: false,
            others: 0,
            is_at_end: false,
        }
    }

    /// Returns what was left out so far.
    pub fn left_out(&self) -> LeftOut
        ensures { result ≡ left_out_of self.now }
    {
        self.left_out
    }

    /// Returns whether the capture is at its end.
    pub fn is_at_end(&self) -> bool
        ensures { result ≡ is_at_end self.now }
    {
        self.is_at_end
    }

    /// Returns the number of packets that were left out for their link type, and of blocks for their interface.
    pub fn others(&self) -> u64
        ensures { result ≡ others_of self.now }
    {
        self.others
    }

    /// Returns the reports so far.
    pub fn changed(&self) -> Changed
        ensures { result ≡ changed_of self.now }
    {
        self.changed
    }

    /// Returns the descriptions of interfaces that are written before the next block, as the last report says.
    pub fn descriptions(&self) -> &[u8]
        ensures { result.now ≡ descriptions_of self.now }
    {
        self.describing.text()
    }

    /// Returns whether the link type of the section's packets is a guess.
    pub fn is_guess(&self) -> bool
        ensures { result ≡ is_link_guessed self.now }
    {
        self.describing.is_guess()
    }

    // Returns the bytes from which the next packet or block is read.
    fn shown(&self) -> &[u8] {
        if self.last.is_empty() {
            return self.window.shown();
        }
        self.last.get(self.given..).unwrap_or_default()
    }

    // Returns whether the packets have the link type of the capture.
    fn keeps_packets(&self) -> bool {
        match &self.kind {
            Kind::Packets(packets) => packets.is_kept(),
            Kind::Blocks(_) => true,
        }
    }

    // Notes a report.
    fn note(&mut self, change: Change) {
        let changed = &mut self.changed;
        changed.count = changed.count.saturating_add(1);
        changed.last = Some(change);
    }

    // Skips the last bytes of the capture, which are of a truncated item.
    fn pass_torn(&mut self) {
        let len = self.window.shown().len();
        self.window.pass(len);
        let scrap = self.kind.torn();
        self.leave_out(len as u64, scrap, None);
        self.is_at_end = true;
    }

    fn leave_out(&mut self, bytes: u64, scrap: Scrap, rule: Option<Rule>) {
        let left_out = &mut self.left_out;
        left_out.bytes = left_out.bytes.saturating_add(bytes);
        left_out.scrap = scrap;
        left_out.rule = rule;
    }
}

impl<R: BufRead> Rows<R> {
    // Finds the next packet or block. At the end of a row none is ready.
    fn find_next(&mut self) -> io::Result<()> {
        for _ in 0..u64::MAX {
            let step = match &mut self.kind {
                Kind::Packets(packets) => {
                    let here = packets.look(&mut self.window)?;
                    self.step_at(here)?
                }
                Kind::Blocks(in_force) => {
                    let front = front_of(in_force, self.window.shown())?;
                    self.step_before(front)?
                }
            };
            if let Step::Done = step {
                break;
            }
        }
        Ok(())
    }

    // Takes a step at a packet, or at other bytes of a classic capture.
    fn step_at(&mut self, here: Here) -> io::Result<Step> {
        if let Here::OtherLink(len) = here {
            self.window.pass(len);
            self.leave_out(len as u64, Scrap::OtherLink, None);
            self.is_leaving_out = true;
            self.others = self.others.saturating_add(1);
            return Ok(Step::Further);
        }
        if let Here::Changed(_) = here {
            if !self.keeps_packets() {
                return Ok(Step::Further);
            }
        }
        if self.is_leaving_out {
            self.is_leaving_out = false;
            return Ok(Step::Done);
        }
        match here {
            Here::Packet(len) => self.ready = len,
            Here::Changed(change) => self.note(change),
            Here::Garbage(rule) => self.pass_garbage(rule)?,
            Here::Torn => self.pass_torn(),
            Here::Header => {
                if let Kind::Packets(packets) = &mut self.kind {
                    packets.begin(self.window.shown());
                }
                self.window.pass(HEADER);
                self.leave_out(HEADER as u64, Scrap::OtherHeader, None);
            }
            Here::OtherLink(_) => {}
        }
        Ok(Step::Done)
    }

    // Takes a step before a block, or before other bytes of a PcapNg capture.
    fn step_before(&mut self, front: Front) -> io::Result<Step> {
        if self.is_leaving_out && !matches!(front, Front::Block(_)) {
            self.is_leaving_out = false;
            return Ok(Step::Done);
        }
        match front {
            Front::Block(len) => return self.pass_block(len),
            Front::Garbage(rule) => self.pass_blocks(rule)?,
            Front::Missing(n) => {
                let end = self.window.shown().len().saturating_add(n);
                if self.contains_blocks(end)? {
                    self.pass_blocks(None)?;
                } else if self.window.reach(end)? {
                    return Ok(Step::Further);
                } else {
                    self.pass_end(n)?;
                }
            }
        }
        Ok(Step::Done)
    }

    // Returns whether the block at the front of the window, which has at least `len` bytes, is longer than the longest packet, and blocks
    // go on inside its first bytes. Its length is then taken for wrong before the rest is read, which may be all of a long capture.
    fn contains_blocks(&mut self, len: usize) -> io::Result<bool> {
        if len <= LIMIT as usize {
            return Ok(false);
        }
        let Kind::Blocks(in_force) = &self.kind else {
            return Ok(false);
        };
        self.window.reach(WINDOW)?;
        let shown = self.window.shown();
        let inside = shown.get(1..shown.len().min(WINDOW)).unwrap_or_default();
        Ok(first_blocks(in_force.order(), inside).is_some())
    }

    // Takes a block of this many bytes, or leaves it out. First it mends the stored length of its packet, reports a guess, and describes
    // its interface. A packet whose body is zero bytes counts as corrupt bytes.
    fn pass_block(&mut self, len: usize) -> io::Result<Step> {
        let Kind::Blocks(in_force) = &mut self.kind else {
            return Ok(Step::Done);
        };
        self.is_leaving_out = false;
        if is_zero_packet(in_force, self.window.shown(), len) {
            self.window.pass(len);
            self.leave_out(len as u64, Scrap::NoBlocks, None);
            return Ok(Step::Done);
        }
        if let Some(change) = mend_stored(in_force, &mut self.window, len) {
            self.is_reported = matches!(change, Change::Length { is_guess: true, .. });
            self.note(change);
            return Ok(Step::Done);
        }
        if !self.is_reported && is_oversized(in_force, self.window.shown(), len) {
            self.is_reported = true;
            self.note(Change::Oversized);
            return Ok(Step::Done);
        }
        let bytes = self.window.shown();
        self.describing.follow(in_force, bytes);
        match self.describing.judge(in_force, bytes)? {
            Next::Take => {
                self.ready = len;
                self.is_reported = false;
            }
            Next::Report(undescribed) => self.note(Change::Undescribed(undescribed)),
            Next::LeaveOut => return self.leave_out_block(len),
        }
        Ok(Step::Done)
    }

    // Leaves out a block of this many bytes. The row ends here unless the next one is left out too.
    fn leave_out_block(&mut self, len: usize) -> io::Result<Step> {
        self.is_reported = false;
        self.window.pass(len);
        self.leave_out(len as u64, Scrap::Undescribed, None);
        self.others = self.others.saturating_add(1);
        self.window.reach(SHORTEST)?;
        self.is_leaving_out = match &self.kind {
            Kind::Packets(_) => false,
            Kind::Blocks(in_force) => self.describing.leaves_out(in_force, self.window.shown()),
        };
        if self.is_leaving_out {
            return Ok(Step::Further);
        }
        Ok(Step::Done)
    }

    // Mends the frame of a block, or skips corrupt bytes that break this rule, if any.
    fn pass_blocks(&mut self, rule: Option<Rule>) -> io::Result<()> {
        let change = match &self.kind {
            Kind::Packets(_) => None,
            Kind::Blocks(in_force) => mend_frame(in_force.order(), &mut self.window)?,
        };
        match change {
            Some(change) => self.note(change),
            None => self.pass_garbage(rule)?,
        }
        Ok(())
    }

    // Skips corrupt bytes that break this rule, if any. The first of them begins no packet.
    fn pass_garbage(&mut self, rule: Option<Rule>) -> io::Result<()> {
        self.window.pass(1);
        let passed = self.window.pass_to(self.kind.sought())?;
        if let Kind::Packets(packets) = &mut self.kind {
            packets.find();
        }
        let scrap = self.kind.garbage();
        self.leave_out(passed.bytes.saturating_add(1), scrap, rule);
        self.is_at_end = !passed.is_found;
        Ok(())
    }

    // Completes the last block of a PcapNg capture, or skips the last bytes, when at least `missing` bytes are missing from a block.
    fn pass_end(&mut self, missing: usize) -> io::Result<()> {
        if self.given < self.last.len() {
            self.ready = self.last.len() - self.given;
            return Ok(());
        }
        if self.mend_last(missing)? {
            return Ok(());
        }
        let last = self.window.shown();
        let goes_on = match &self.kind {
            Kind::Packets(_) => false,
            Kind::Blocks(in_force) => {
                first_blocks(in_force.order(), last.get(1..).unwrap_or_default()).is_some()
            }
        };
        if goes_on || last.len().saturating_add(missing) > LIMIT as usize {
            return self.pass_blocks(None);
        }
        self.pass_torn();
        Ok(())
    }

    // Mends the frame of the last block, or completes it, or describes its interface, and returns whether that was done.
    fn mend_last(&mut self, missing: usize) -> io::Result<bool> {
        let Kind::Blocks(in_force) = &mut self.kind else {
            return Ok(false);
        };
        let len = self.window.shown().len();
        if len == 0 || len.saturating_add(missing) > LIMIT as usize {
            return Ok(false);
        }
        if let Some(change) = mend_frame(in_force.order(), &mut self.window)? {
            self.note(change);
            return Ok(true);
        }
        let Some(text) = complete_last(self.alloc, in_force, self.window.shown())? else {
            return Ok(false);
        };
        match self.describing.judge(in_force, self.window.shown())? {
            Next::Take => {}
            Next::Report(undescribed) => {
                self.note(Change::Undescribed(undescribed));
                return Ok(true);
            }
            Next::LeaveOut => return Ok(false),
        }
        self.note(Change::CutOff {
            present: len,
            whole: text.len(),
        });
        self.last = text;
        self.window.pass(len);
        Ok(true)
    }
}

impl<R: BufRead> Read for Rows<R> {
    ghost remaining = { λ rows. None };

    fn read(&mut self, buf: &mut [u8]) -> io::Result<usize> {
        if self.ready == 0 {
            self.find_next()?;
        }
        let shown = self.shown();
        let len = self.ready.min(shown.len()).min(buf.len());
        buf[..len].copy_from_slice(&shown[..len]);
        if self.last.is_empty() {
            self.window.pass(len);
        } else {
            self.given = self.given.saturating_add(len);
        }
        if self.given >= self.last.len() {
            self.last.clear();
            self.given = 0;
        }
        self.ready = self.ready.saturating_sub(len);
        Ok(len)
    }
}

// Returns the block at the front of these bytes. A section or interface there is in force afterwards.
fn front_of(in_force: &mut InForce, bytes: &[u8]) -> Result<Front, AllocError> {
    match in_force.follow(bytes) {
        Ok(rest) => Ok(Front::Block(bytes.len().saturating_sub(rest.len()))),
        Err(PcapError::IncompleteBuffer(n)) => Ok(Front::Missing(n)),
        Err(PcapError::OutOfMemory(error)) => Err(error),
        Err(error) => Ok(Front::Garbage(error.rule())),
    }
}

// Returns what the first section header in the window puts in force, and the length of this header.
fn open<R: BufRead>(alloc: Global, window: &mut Window<R>) -> ResultParsing<(InForce, usize)> {
    for _ in 0..u64::MAX {
        match first_section(alloc, window.shown()) {
            Err(PcapError::IncompleteBuffer(n)) => {
                if !window.show(n)? {
                    return Err(PcapError::IncompleteBuffer(n));
                }
            }
            opened => return opened,
        }
    }
    Err(PcapError::IncompleteBuffer(1))
}

/// Returns whether the window begins with a section header, which may not be longer than the longest packet.
pub(crate) fn begins_section<R: BufRead>(
    alloc: Global,
    window: &mut Window<R>,
) -> ResultParsing<bool> {
    for _ in 0..u64::MAX {
        match first_section(alloc, window.shown()) {
            Ok(_) => return Ok(true),
            Err(PcapError::IncompleteBuffer(n)) if n <= LIMIT as usize => {
                if !window.show(n)? {
                    break;
                }
            }
            Err(PcapError::OutOfMemory(error)) => return Err(PcapError::OutOfMemory(error)),
            Err(_) => break,
        }
    }
    Ok(false)
}

// Returns what the section header at the front of these bytes puts in force, and the length of this header.
fn first_section(alloc: Global, bytes: &[u8]) -> ResultParsing<(InForce, usize)> {
    if bytes.len() >= SECTION.len() && !bytes.starts_with(&SECTION) {
        return Err(PcapError::from(Rule::SectionMissing));
    }
    let (rest, in_force) = InForce::open(alloc, bytes)?;
    Ok((in_force, bytes.len().saturating_sub(rest.len())))
}
