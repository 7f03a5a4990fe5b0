//! The results of checking a capture.

ghost use Rattle.std.specs.Prelude.{◌≡◌, true, false, IfSome, IfNone};
ghost use Rattle.pcap_core.specs.declared.rules.Rule.{Rule};
ghost use Rattle.pcap_core.specs.Errors.{IsIo, IsMemory};
ghost use Rattle.pcap_core.specs.Faults.{Names};
ghost use Rattle.pcapfile_run.specs.Checks.{EndIs, FaultIs};
ghost use Rattle.pcapfile_run.specs.Lines.{ending_text, line_of, status_of};

use crate::format::Format;
use pcap_file::{PcapError, Rule};
use std::fmt;

/// The reason why no item follows those that were counted.
#[derive(Debug, Drop)]
pub enum End {
    /// The end of the capture: nothing is left.
    Whole,
    /// The greatest number of items was counted.
    Most,
    /// The capture is truncated: it ends inside a classic header, a packet record or a later block, or the body of a later section
    /// header or interface description ends inside a value.
    Short,
    /// The bytes there break this rule.
    Breaks(Rule),
    /// A string there isn't UTF-8.
    NotUtf8,
    /// The input can't be read. A PcapNg capture truncated in its first block also has this end, with kind `UnexpectedEof`.
    Unread(PcapError),
    /// The program is out of memory.
    Memory,
}

/// The result of checking a capture.
#[derive(Debug, Drop)]
pub struct Checked {
    /// The capture's format.
    pub format: Format,
    /// The number of packets, or of blocks with the first section header, before the end.
    pub items: u64,
    /// The number of bytes of these items, and of the header of a classic capture: the offset of what follows.
    pub bytes: u64,
    /// The reason why no item follows.
    pub end: End,
}

impl Checked {
    /// Returns the exit status of a process that checked this capture.
    pub fn status(&self) -> u8
        ensures { result ≡ status_of self.now.end }
    {
        match &self.end {
            End::Whole => 0,
            End::Most | End::Short | End::Breaks(_) | End::NotUtf8 => 1,
            End::Unread(_) => 3,
            End::Memory => 4,
        }
    }
}

// The text of a line about an end at this byte.
#[derive(Clone, Copy)]
struct Ending<'a> {
    end: &'a End,
    byte: u64,
}

impl fmt::Display for Ending<'_> {
    ghost output = { λ ending. ending_text ending.end.now ending.byte };

    fn fmt<W: fmt::Write>(&self, f: &mut fmt::Formatter<W>) -> fmt::Result {
        let byte = self.byte;
        match self.end {
            End::Whole => write!(f, "{byte} bytes"),
            End::Most => write!(f, "{byte} bytes or more"),
            End::Short => write!(f, "cut short at byte {byte}"),
            End::Breaks(rule) => {
                let number = rule.number();
                let text = rule.text();
                write!(f, "refused at byte {byte} by rule {number}: {text}")
            }
            End::NotUtf8 => write!(f, "not UTF-8 at byte {byte}"),
            End::Unread(PcapError::IoError(error)) => {
                write!(f, "unread from byte {byte}: {error}")
            }
            End::Unread(error) => write!(f, "unread from byte {byte}: {error}"),
            End::Memory => write!(f, "no memory at byte {byte}"),
        }
    }
}

/// Writes a line without a newline: the format, the number of items, and their bytes or the error at the next byte.
impl fmt::Display for Checked {
    ghost output = { line_of };

    fn fmt<W: fmt::Write>(&self, f: &mut fmt::Formatter<W>) -> fmt::Result {
        let format = self.format.name();
        let items = self.items;
        let unit = self.format.items();
        let ending = Ending {
            end: &self.end,
            byte: self.bytes,
        };
        write!(f, "{format}, {items} {unit}, {ending}")
    }
}

/// Returns the reason why a run ended with this fault, or without one after `items` items of at most `most`.
pub fn end_of(fault: Option<PcapError>, read_failed: bool, items: u64, most: u64) -> End
    ensures { EndIs fault read_failed items most result }
{
    match fault {
        None if items < most => End::Whole,
        None => End::Most,
        Some(error) => end_at(error, read_failed),
    }
}

// Returns the reason why a run ended with this fault.
fn end_at(error: PcapError, read_failed: bool) -> End
    ensures { FaultIs error read_failed result }
{
    if let Some(rule) = rule_in(&error) {
        return End::Breaks(rule);
    }
    if is_memory(&error) {
        return End::Memory;
    }
    if !is_io(&error) {
        return End::NotUtf8;
    }
    if read_failed {
        return End::Unread(error);
    }
    End::Short
}

#[tactic(auto, using(crate::proofs::Ends::none_named))]
fn rule_in(error: &PcapError) -> Option<Rule>
    ensures named { IfSome result (λ rule. Names rule error.now) }
    ensures others { IfNone result ((rule : Rule) → Names rule error.now → ⊥) }
{
    error.rule()
}

fn is_memory(error: &PcapError) -> bool
    ensures yes { result ≡ true → (IsMemory error.now) }
    ensures no { result ≡ false → (IsMemory error.now → ⊥) }
{
    match error {
        PcapError::OutOfMemory(_) => true,
        _ => false,
    }
}

fn is_io(error: &PcapError) -> bool
    ensures yes { result ≡ true → (IsIo error.now) }
    ensures no { result ≡ false → (IsIo error.now → ⊥) }
{
    match error {
        PcapError::IoError(_) => true,
        _ => false,
    }
}
