//! What a repair made of a capture, in numbers.

ghost use Rattle.std.specs.Prelude.{◌≡◌};
ghost use Rattle.pcapfile_lenient.specs.Outcomes.{outcome_of, status_of, worse};

use pcapfile_files::Count;
use pcapfile_run::Format;
use std::fmt;

/// The exit status when a capture was damaged and is repaired.
pub const REPAIRED: u8 = 5;

/// The exit status when a capture was damaged, and a part of the repaired capture is a guess.
pub const GUESSED: u8 = 6;

/// What a repair made of a packet, a block or a capture.
#[derive(Clone, Copy, Debug, PartialEq, Eq)]
pub enum Outcome {
    /// It is sound, and is kept.
    Kept,
    /// It was damaged, and is repaired or left out.
    Repaired,
    /// It is kept or repaired by a guess.
    Guessed,
}

/// The numbers of packets or blocks that a repair kept, repaired, guessed and left out, and of the bytes that it skipped.
#[derive(Clone, Copy, Debug)]
pub struct Summary {
    /// The format of the capture.
    pub format: Format,
    /// What became of the header or of the line ends.
    pub opening: Outcome,
    /// The packets or blocks that were sound.
    pub kept: u64,
    /// Those that were repaired without a guess.
    pub repaired: u64,
    /// Those that are a guess.
    pub guessed: u64,
    /// Those that were left out.
    pub left_out: u64,
    /// The bytes that were skipped.
    pub skipped: u64,
}

/// The counts of a repair that goes on: a packet or block counts when no message on it can follow.
#[derive(Clone, Copy, Debug)]
pub(crate) struct Tally {
    summary: Summary,
    /// What messages say of the next packet or block.
    next: Outcome,
    /// What became of the last packet or block, if there is one.
    last: Option<Outcome>,
}

impl Outcome {
    /// Returns the worse of two outcomes.
    pub(crate) fn or(self, other: Outcome) -> Outcome
        ensures { result ≡ worse self other }
    {
        match (self, other) {
            (Outcome::Guessed, _) | (_, Outcome::Guessed) => Outcome::Guessed,
            (Outcome::Repaired, _) | (_, Outcome::Repaired) => Outcome::Repaired,
            (Outcome::Kept, Outcome::Kept) => Outcome::Kept,
        }
    }

    /// Returns the exit status of a repair with this outcome.
    pub fn status(self) -> u8
        ensures { result ≡ status_of self }
    {
        match self {
            Outcome::Kept => 0,
            Outcome::Repaired => REPAIRED,
            Outcome::Guessed => GUESSED,
        }
    }

    /// Returns the name of the outcome of a capture.
    pub(crate) fn name(self) -> &'static str {
        match self {
            Outcome::Kept => "sound",
            Outcome::Repaired => "repaired",
            Outcome::Guessed => "guessed",
        }
    }
}

impl Summary {
    /// Returns the summary of a capture of which no packet or block was read.
    pub(crate) fn new(format: Format, opening: Outcome) -> Summary {
        Summary {
            format,
            opening,
            kept: 0,
            repaired: 0,
            guessed: 0,
            left_out: 0,
            skipped: 0,
        }
    }

    /// Counts a packet or block with this outcome.
    pub(crate) fn count(&mut self, outcome: Outcome) {
        let count = match outcome {
            Outcome::Kept => &mut self.kept,
            Outcome::Repaired => &mut self.repaired,
            Outcome::Guessed => &mut self.guessed,
        };
        *count = count.saturating_add(1);
    }

    /// Counts packets or blocks that were left out.
    pub(crate) fn leave_out(&mut self, items: u64) {
        self.left_out = self.left_out.saturating_add(items);
    }

    /// Counts bytes that were skipped.
    pub(crate) fn skip(&mut self, bytes: u64) {
        self.skipped = self.skipped.saturating_add(bytes);
    }

    /// Returns what the repair made of the whole capture: the worst of its outcomes.
    pub fn outcome(&self) -> Outcome
        ensures { result ≡ outcome_of self.now }
    {
        if self.guessed > 0 {
            return Outcome::Guessed;
        }
        let is_changed = self.repaired > 0 || self.left_out > 0 || self.skipped > 0;
        let items = if is_changed {
            Outcome::Repaired
        } else {
            Outcome::Kept
        };
        self.opening.or(items)
    }
}

impl Tally {
    /// Returns the counts of a capture of which no packet or block was read.
    pub(crate) fn new(format: Format, opening: Outcome) -> Tally {
        Tally {
            summary: Summary::new(format, opening),
            next: Outcome::Kept,
            last: None,
        }
    }

    /// Notes what a message says of the next packet or block.
    pub(crate) fn expect(&mut self, outcome: Outcome) {
        self.next = self.next.or(outcome);
    }

    /// Notes that the last packet or block is a guess.
    pub(crate) fn doubt_last(&mut self) {
        if self.last.is_some() {
            self.last = Some(Outcome::Guessed);
        }
    }

    /// Counts the next packet or block, which has this outcome or a worse one that was noted.
    pub(crate) fn count(&mut self, outcome: Outcome) {
        self.count_last();
        self.last = Some(self.next.or(outcome));
        self.next = Outcome::Kept;
    }

    /// Counts packets or blocks that are left out.
    pub(crate) fn leave_out(&mut self, items: u64) {
        self.next = Outcome::Kept;
        self.summary.leave_out(items);
    }

    /// Counts bytes that are skipped.
    pub(crate) fn skip(&mut self, bytes: u64) {
        self.summary.skip(bytes);
    }

    /// Returns the summary of all that was counted.
    pub(crate) fn summary(&mut self) -> Summary {
        self.count_last();
        self.summary
    }

    fn count_last(&mut self) {
        if let Some(last) = self.last.take() {
            self.summary.count(last);
        }
    }
}

/// Writes a line without a newline.
impl fmt::Display for Summary {
    fn fmt<W: fmt::Write>(&self, f: &mut fmt::Formatter<W>) -> fmt::Result {
        let kept = match self.format {
            Format::Pcap => Count(self.kept, "packet kept", "packets kept"),
            Format::PcapNg => Count(self.kept, "block kept", "blocks kept"),
        };
        if self.outcome() == Outcome::Kept {
            return write!(f, "no damage found; {kept}");
        }
        let (repaired, guessed, left_out) = (self.repaired, self.guessed, self.left_out);
        let skipped = Count(self.skipped, "byte skipped", "bytes skipped");
        write!(
            f,
            "{kept}, {repaired} repaired, {guessed} guessed, {left_out} left out, {skipped}"
        )
    }
}
