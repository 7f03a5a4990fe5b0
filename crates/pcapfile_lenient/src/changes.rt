//! Messages on the packets and blocks of a damaged capture.

ghost use Rattle.std.specs.Prelude.{◌≡◌};
ghost use Rattle.pcapfile_lenient.specs.Outcomes.{change_outcome};

use crate::summary::Outcome;
use pcap_variants::Variant;
use pcapfile_as_is::{Counted, Spot};
use pcapfile_rows::{Change, Fate, LIMIT, Source, Undescribed};
use std::alloc::{AllocError, Global};
use std::fmt;

/// The message that a capture of a variant is read as a plain one.
#[derive(Clone, Copy)]
pub struct LeftOutHeads(pub Variant);

/// The message on what is done with a packet or block, and why.
#[derive(Clone, Copy)]
pub(crate) struct ChangeMessage(pub(crate) Change);

// The message on what becomes of the packets of an undescribed interface, and why.
#[derive(Clone, Copy)]
struct UndescribedMessage(Undescribed);

/// How a message names a packet or a block.
#[derive(Clone, Copy)]
pub enum Named {
    /// A packet, by its number.
    Packet,
    /// A block, by its number.
    Block,
    /// A block where only packets are counted.
    AnyBlock,
}

impl Named {
    // Returns the name of the packet or block with this number.
    fn name(self, alloc: Global, number: u64) -> Result<String, AllocError> {
        match self {
            Named::Packet => format!(in alloc; "packet {number}"),
            Named::Block => format!(in alloc; "block {number}"),
            Named::AnyBlock => format!(in alloc; "a block"),
        }
    }
}

/// Returns the number and the place of the packet or block that a report is about, when the reader is behind what is counted.
pub(crate) fn spot_of(change: &Change, counted: &Counted) -> Spot {
    match *change {
        Change::Unconfirmed(len) => Spot {
            number: counted.items,
            place: counted.bytes.saturating_sub(len as u64),
        },
        _ => Spot {
            number: counted.items.saturating_add(1),
            place: counted.bytes,
        },
    }
}

/// Returns what becomes of the packet or block that a report is about, unless it is left out.
pub(crate) fn outcome_of(change: &Change) -> Option<Outcome>
    ensures { result ≡ change_outcome change.now }
{
    if change.is_left_out() {
        return None;
    }
    if change.is_guess() {
        return Some(Outcome::Guessed);
    }
    Some(Outcome::Repaired)
}

/// Returns the message of a report on a packet or block, when the reader is behind what is counted.
pub fn message_of(
    alloc: Global,
    change: &Change,
    named: Named,
    counted: &Counted,
) -> Result<String, AllocError> {
    let Spot { number, place } = spot_of(change, counted);
    let item = named.name(alloc, number)?;
    let message = ChangeMessage(*change);
    format!(in alloc; "{item} at byte {place}: {message}")
}

impl fmt::Display for LeftOutHeads {
    fn fmt<W: fmt::Write>(&self, f: &mut fmt::Formatter<W>) -> fmt::Result {
        let further = self.0.further;
        write!(
            f,
            "{further}: the {} further bytes of each are left out, and bytes are counted without them",
            further.len()
        )
    }
}

impl fmt::Display for ChangeMessage {
    fn fmt<W: fmt::Write>(&self, f: &mut fmt::Formatter<W>) -> fmt::Result {
        match self.0 {
            Change::Length {
                stated,
                length,
                is_guess,
            } => {
                let how = if is_guess { ", by a guess" } else { "" };
                write!(f, "its stored length is {length} and not {stated}{how}")
            }
            Change::Found => f.write_str("kept, a guess: it may lie inside another packet"),
            Change::Empty => f.write_str("kept, a guess: it has no data"),
            Change::Oversized => write!(f, "kept, a guess: its original length is above {LIMIT}"),
            Change::Unconfirmed(_) => f.write_str("kept, a guess: nothing confirms where it ends"),
            Change::CutOff { .. } => f.write_str(
                "its end is missing: its packet is kept, without options that are cut off or break rules",
            ),
            Change::Undescribed(undescribed) => {
                let message = UndescribedMessage(undescribed);
                write!(f, "{message}")
            }
        }
    }
}

impl fmt::Display for UndescribedMessage {
    fn fmt<W: fmt::Write>(&self, f: &mut fmt::Formatter<W>) -> fmt::Result {
        let Undescribed { interface, fate } = self.0;
        if let Fate::Described(link, source) = fate {
            let how = source_of(source);
            return write!(
                f,
                "interface {interface} is not described: a description of link type {link}{how} is written before it"
            );
        }
        let why = reason_of(fate);
        write!(f, "interface {interface} is not described: {why}")
    }
}

// Returns the words for where a description comes from.
fn source_of(source: Source) -> &'static str {
    match source {
        Source::Others => ", like those of the other interfaces of its section,",
        Source::Header => ", as --header gives it,",
        Source::Link => " and times in microseconds, which makes its packets guesses,",
        Source::Assumed =>
            ", which is assumed, and times in microseconds, which makes its packets guesses,",
    }
}

// Returns the message on packets whose interface gets no description.
fn reason_of(fate: Fate) -> &'static str {
    match fate {
        Fate::Described(..) => "it is described",
        Fate::Kept =>
            "packets are kept without a description; 'pcapfile repair --guess' writes one, with the link type of --link LINK",
        Fate::OthersDiffer =>
            "its packets are left out, since the interfaces of its section differ in link type or in how they count time",
        Fate::TooHigh =>
            "its packets are left out, since its number is far above those of the described interfaces",
        Fate::Disputed =>
            "its packets are left out, since a later description differs from that written before",
    }
}
