//! Bytes of captures that are left out, because they are no packets or blocks.

ghost use Rattle.std.specs.Prelude.{◌≡◌, ◌+◌, ◌-◌, max, Some, IfOk, string_bytes};
ghost use Rattle.pcap_program.specs.Lines.{WritesLine};
ghost use Rattle.pcapfile_as_is.specs.Counts.{counted};
ghost use Rattle.pcapfile_as_is.specs.Gaps.{gap_behind, gap_line, gap_text, reason_text, scrap_text};

use crate::counted::Counted;
use pcap_core::rules::Rule;
use pcap_damaged::{LeftOut, Scrap};
use pcap_program::{Exit, put_line};
use std::alloc::{AllocError, Global};
use std::fmt;
use std::io::Write;

/// A gap: consecutive bytes that are left out of a capture.
#[derive(Clone, Copy, Debug, PartialEq, Eq)]
pub struct Gap {
    /// Its offset in the capture.
    pub place: u64,
    /// Its number of bytes.
    pub bytes: u64,
    /// The kind of its bytes.
    pub scrap: Scrap,
    /// The rule that its first bytes break, if any.
    pub rule: Option<Rule>,
}

/// The position up to which a capture was read.
#[derive(Clone, Copy, Debug, PartialEq, Eq)]
pub struct Position {
    /// The counts of its items. Bytes that are left out count among its bytes.
    pub counted: Counted,
    /// The number of its bytes that are left out.
    pub left_out: u64,
}

// Returns the words for the kind of bytes that are left out.
fn text_of(scrap: Scrap) -> &'static str
    ensures { result.now ≡ scrap_text scrap }
{
    match scrap {
        Scrap::NoPackets => "no packets",
        Scrap::NoBlocks => "no blocks",
        Scrap::PacketFront => "of a packet that is cut short",
        Scrap::BlockFront => "of a block that is cut short",
        Scrap::OtherHeader => "the header of another capture",
        Scrap::OtherLink => "packets of another link type",
        Scrap::Undescribed => "blocks of an interface that is not described",
    }
}

impl Position {
    /// Returns the position after the opening of a capture, which has this many bytes.
    pub fn new(bytes: u64) -> Position
        ensures items { result.counted.items ≡ 0 }
        ensures flawed { result.counted.flawed ≡ 0 }
        ensures bytes { result.counted.bytes ≡ bytes }
        ensures left_out { result.left_out ≡ 0 }
    {
        Position {
            counted: Counted {
                items: 0,
                flawed: 0,
                bytes,
            },
            left_out: 0,
        }
    }

    /// Advances past the bytes left out so far, and returns those that were left out since the last call as a gap, if any.
    pub fn pass(&mut self, left_out: LeftOut) -> Option<Gap>
        ensures gap { result ≡ gap_behind self.old left_out }
        ensures items { self.new.counted.items ≡ self.old.counted.items }
        ensures flawed { self.new.counted.flawed ≡ self.old.counted.flawed }
        ensures bytes { self.new.counted.bytes ≡ counted (self.old.counted.bytes + (left_out.bytes - self.old.left_out)) }
        ensures left_out { self.new.left_out ≡ max self.old.left_out left_out.bytes }
    {
        let bytes = left_out.bytes.saturating_sub(self.left_out);
        let gap = Gap {
            place: self.counted.bytes,
            bytes,
            scrap: left_out.scrap,
            rule: left_out.rule,
        };
        self.counted.bytes = self.counted.bytes.saturating_add(bytes);
        self.left_out = self.left_out.max(left_out.bytes);
        if bytes == 0 {
            return None;
        }
        Some(gap)
    }
}

/// Writes the number of bytes, their offset and kind, and that they are left out.
impl fmt::Display for Gap {
    ghost output = { λ gap. Some (gap_text gap) };

    fn fmt<W: fmt::Write>(&self, f: &mut fmt::Formatter<W>) -> fmt::Result {
        let (bytes, place) = (self.bytes, self.place);
        let scrap = text_of(self.scrap);
        write!(
            f,
            "{bytes} bytes at byte {place} are {scrap}, and are left out"
        )
    }
}

// Returns the text with the rule that the bytes break, if any.
fn reason_of(alloc: Global, rule: Option<Rule>) -> Result<String, AllocError>
    ensures { IfOk result (λ text. string_bytes text ≡ reason_text rule) }
{
    let Some(rule) = rule else {
        return Ok(String::new(alloc));
    };
    let (number, message) = (rule.number(), rule.text());
    format!(in alloc; " by rule {number}: {message}")
}

// Returns the line of a gap.
fn line_of(alloc: Global, prefix: &str, gap: &Gap) -> Result<String, AllocError>
    ensures { IfOk result (λ line. string_bytes line ≡ gap_line prefix.now gap.now) }
{
    let reason = reason_of(alloc, gap.rule)?;
    format!(in alloc; "{prefix}{gap}{reason}\n")
}

/// Writes the line of a gap after the prefix, with the rule that its bytes break, if any. Returns `Io` if the output fails, and `Memory`
/// if there is no memory for the line.
pub fn put_gap<W: Write>(alloc: Global, output: &mut W, prefix: &str, gap: &Gap) -> Result<(), Exit>
    ensures { WritesLine (λ line. line ≡ gap_line prefix.now gap.now) (W.contents output.old) (W.contents output.new) result }
{
    let line = line_of(alloc, prefix, gap)?;
    put_line(output, line.as_bytes())
}
