//! Lines for the rules that packets break.

ghost use Rattle.std.specs.Prelude.{◌≡◌, [], IfOk, string_bytes, if◌then◌else◌};
ghost use Rattle.pcapfile_as_is.specs.FlawLines.{place_text, flaw_text, flaws_text};

use crate::block_flaws::rule_flaw;
use crate::counted::Spot;
use crate::teller::Teller;
use pcap_classic::TsResolution;
use pcap_core::rules::Rule;
use pcap_program::{Exit, put_line};
use pcap_tolerant::{Flaws, PacketAsIs};
use std::alloc::{AllocError, Global};
use std::io::Write;

/// A writer of a line for each rule that a packet breaks. The line has the prefix, the packet's number and offset, and the rule's number
/// and message.
#[derive(Clone, Copy, Debug, Drop)]
pub struct FlawLines<'a> {
    /// The text before each line.
    pub prefix: &'a str,
}

// Returns the text that says where the packet with this number is.
fn place_of(alloc: Global, prefix: &str, number: u64, place: u64) -> Result<String, AllocError>
    ensures { IfOk result (λ text. string_bytes text ≡ place_text prefix.now number place) }
{
    format!(in alloc; "{prefix}packet {number} at byte {place}")
}

// Returns the line of a rule.
fn flaw_line(
    alloc: Global,
    prefix: &str,
    number: u64,
    place: u64,
    rule: Rule,
) -> Result<String, AllocError>
    ensures { IfOk result (λ line. string_bytes line ≡ flaw_text prefix.now number place rule) }
{
    let place = place_of(alloc, prefix, number, place)?;
    rule_flaw(alloc, place.as_str(), "", rule)
}

// Returns the line of a rule if it is broken, or else no line.
fn line_if(
    alloc: Global,
    prefix: &str,
    number: u64,
    place: u64,
    is_broken: bool,
    rule: Rule,
) -> Result<String, AllocError>
    ensures { IfOk result (λ line. string_bytes line ≡ (if is_broken then flaw_text prefix.now number place rule else [])) }
{
    if is_broken {
        return flaw_line(alloc, prefix, number, place, rule);
    }
    Ok(String::new(alloc))
}

// Returns the lines of the rules that are broken.
fn flaw_lines(
    alloc: Global,
    prefix: &str,
    number: u64,
    place: u64,
    flaws: Flaws,
) -> Result<String, AllocError>
    ensures { IfOk result (λ lines. string_bytes lines ≡ flaws_text prefix.now number place flaws) }
{
    let fraction = line_if(
        alloc,
        prefix,
        number,
        place,
        flaws.fraction_too_large,
        Rule::FractionTooLarge,
    )?;
    let included = line_if(
        alloc,
        prefix,
        number,
        place,
        flaws.included_too_long,
        Rule::IncludedTooLong,
    )?;
    let original = line_if(
        alloc,
        prefix,
        number,
        place,
        flaws.original_too_long,
        Rule::OriginalTooLong,
    )?;
    let past = line_if(
        alloc,
        prefix,
        number,
        place,
        flaws.included_past_original,
        Rule::IncludedPastOriginal,
    )?;
    format!(in alloc; "{fraction}{included}{original}{past}")
}

impl Teller for FlawLines<'_> {
    ghost use Rattle.std.specs.Prelude.{ℕ, List};

    ghost Setting = { List ℕ };

    ghost setting = { λ lines. lines.prefix.now };

    ghost text = { λ prefix r number place packet. flaws_text prefix number place packet.flaws };

    fn put<W: Write>(
        &mut self,
        alloc: Global,
        output: &mut W,
        ts_resolution: TsResolution,
        at: Spot,
        packet: &PacketAsIs<'_>,
    ) -> Result<(), Exit> {
        if !packet.flaws.is_broken() {
            return Ok(());
        }
        let lines = flaw_lines(alloc, self.prefix, at.number, at.place, packet.flaws)?;
        put_line(output, lines.as_bytes())
    }
}
