//! Lines for the flaws of blocks.

ghost use Rattle.std.specs.Prelude.{◌≡◌, ℕ, List, [], Option, Some, IfOk, IfErr, string_bytes};
ghost use Rattle.pcap_core.specs.Answer.{number_in};
ghost use Rattle.pcap_core.specs.Faults.{Invalid};
ghost use Rattle.pcap_blocks.specs.InterfaceDescription.{Interface};
ghost use Rattle.pcap_blocks.specs.SectionHeader.{Section, magic_order};
ghost use Rattle.pcap_ng.specs.Lent.{framed_around};
ghost use Rattle.pcap_tolerant_blocks.specs.Flaws.{Said, fault_of, said_of};
ghost use Rattle.pcap_tolerant_blocks.specs.InterfaceAsIs.{InterfaceText};
ghost use Rattle.pcap_tolerant_blocks.specs.NextFlaw.{HasFlaws};
ghost use Rattle.pcap_tolerant_blocks.specs.SectionAsIs.{SectionText};
ghost use Rattle.pcap_tolerant_blocks.specs.SoundOptions.{kind_of};
ghost use Rattle.pcap_tolerant_captures.specs.Blocks.{AsIsText};
ghost use Rattle.pcap_tolerant_captures.specs.State.{State, Led};
ghost use Rattle.pcap_program.specs.Exits.{IsMemoryExit};
ghost use Rattle.pcap_program.specs.Lines.{WritesLine};
ghost use Rattle.pcapfile_as_is.specs.BlockLines.{WritesFlaws, block_lines, block_place, broken_rule, fault_line, option_text, said_line};
ghost use Rattle.pcapfile_as_is.specs.Counts.{is_flawed};
ghost use Rattle.pcapfile_as_is.specs.Texts.{TellsBy, WritesTold};

use crate::counted::{Spot, Told};
use pcap_core::Endianness;
use pcap_core::rules::Rule;
use pcap_file::pcapng::{BlockHeader, BlockType};
use pcap_program::{Exit, put_line};
use pcap_tolerant_blocks::{Broken, Flaw, OptionsOf, next_flaw};
use std::alloc::{AllocError, Global};
use std::io;
use std::io::Write;

// Returns the text that says where the block with this number is.
fn place_of(alloc: Global, prefix: &str, number: u64, place: u64) -> Result<String, AllocError>
    ensures { IfOk result (λ text. string_bytes text ≡ block_place prefix.now number place) }
{
    format!(in alloc; "{prefix}block {number} at byte {place}")
}

// Returns the text that names the option with the flaw, if any.
fn option_of(alloc: Global, code: Option<u16>) -> Result<String, AllocError>
    ensures { IfOk result (λ text. string_bytes text ≡ option_text code) }
{
    match code {
        None => Ok(String::new(alloc)),
        Some(code) => format!(in alloc; " in option {code}"),
    }
}

// Returns the line of a rule with this number and message.
fn rule_line(
    alloc: Global,
    place: &str,
    number: u32,
    option: &str,
    message: &str,
) -> Result<String, AllocError>
    ensures { IfOk result (λ line. string_bytes line ≡ broken_rule place.now number option.now message.now) }
{
    format!(in alloc; "{place} breaks rule {number}{option}: {message}\n")
}

/// Returns the line of a rule that is broken in an option, or in none if `option` is empty.
pub(crate) fn rule_flaw(
    alloc: Global,
    place: &str,
    option: &str,
    rule: Rule,
) -> Result<String, AllocError>
    ensures { IfOk result (λ line. string_bytes line ≡ fault_line place.now option.now (Invalid rule)) }
{
    rule_line(alloc, place, rule.number(), option, rule.text())
}

// Returns the line of a fault in an option, or in none.
fn broken_line(
    alloc: Global,
    place: &str,
    option: &str,
    broken: Broken,
) -> Result<String, AllocError>
    ensures { IfOk result (λ line. string_bytes line ≡ fault_line place.now option.now (fault_of broken)) }
{
    match broken {
        Broken::Rule(rule) => rule_flaw(alloc, place, option, rule),
        Broken::NotUtf8 => format!(in alloc; "{place} is not UTF-8{option}\n"),
        Broken::TooShort => format!(in alloc; "{place} is too short{option}\n"),
    }
}

// Returns the line of a flaw.
fn line_of(alloc: Global, place: &str, flaw: Flaw) -> Result<String, AllocError>
    ensures { IfOk result (λ line. string_bytes line ≡ said_line place.now (said_of flaw)) }
{
    let within = option_of(alloc, flaw.code)?;
    broken_line(alloc, place, within.as_str(), flaw.broken)
}

// Writes the line of a flaw. If there is no memory for the line, the error is one of the output, since lines may already be written.
fn put_flaw<W: Write>(alloc: Global, output: &mut W, place: &str, flaw: Flaw) -> Result<(), Exit>
    ensures writes { WritesLine (λ line. line ≡ said_line place.now (said_of flaw))
        (W.contents output.old) (W.contents output.new) result }
    ensures no_memory { IfErr result (λ exit. IsMemoryExit exit → ⊥) }
{
    match line_of(alloc, place, flaw) {
        Ok(line) => put_line(output, line.as_bytes()),
        Err(error) => {
            let unwritten = io::Error::from(error);
            Err(Exit::from(unwritten))
        }
    }
}

// Writes a line for each flaw of options, and returns whether there is one.
fn put_flaws<W: Write>(
    alloc: Global,
    output: &mut W,
    place: &str,
    of: OptionsOf,
    order: Endianness,
    options: &[u8],
) -> Result<bool, Exit>
    ensures { (flaws : List Said) → HasFlaws (number_in order) (kind_of of) flaws options.now →
        WritesFlaws place.now flaws (W.contents output.old) (W.contents output.new) result }
{
    let mut has_flaw = false;
    let mut left = options;
    while let Some(next) = next_flaw(of, order, left) {
        let (flaw, others) = next;
        put_flaw(alloc, output, place, flaw)?;
        has_flaw = true;
        left = others;
    }
    Ok(has_flaw)
}

// Writes a line for each flaw of an interface's body, and returns whether there is one.
fn put_flaws_of_interface<W: Write>(
    alloc: Global,
    output: &mut W,
    place: &str,
    order: Endianness,
    body: &[u8],
) -> Result<bool, Exit>
    ensures { (interface : Option Interface) (flaws : List Said) (rest : List ℕ) →
        InterfaceText (number_in order) interface flaws body.now rest →
        WritesFlaws place.now flaws (W.contents output.old) (W.contents output.new) result }
{
    if body.len() < 8 {
        let too_short = Flaw {
            code: None,
            broken: Broken::Rule(Rule::InterfaceTooShort),
        };
        put_flaw(alloc, output, place, too_short)?;
        return Ok(true);
    }
    put_flaws(
        alloc,
        output,
        place,
        OptionsOf::Interface,
        order,
        &body[8..],
    )
}

// Writes a line for each flaw of a section's body in its byte order, and returns whether there is one.
fn put_flaws_of_section<W: Write>(
    alloc: Global,
    output: &mut W,
    place: &str,
    order: Endianness,
    body: &[u8],
) -> Result<bool, Exit>
    ensures { (section : Section) (flaws : List Said) (rest : List ℕ) →
        magic_order section.magic ≡ Some order → SectionText section flaws body.now rest →
        WritesFlaws place.now flaws (W.contents output.old) (W.contents output.new) result }
{
    if body.len() < 16 {
        return Ok(false);
    }
    put_flaws(alloc, output, place, OptionsOf::Section, order, &body[16..])
}

// Writes a line for each flaw of the body of a block at this place, and returns whether there is one. Only a section or an interface has
// any.
fn put_flaws_of<W: Write>(
    alloc: Global,
    output: &mut W,
    prefix: &str,
    at: Spot,
    header: BlockHeader,
    body: &[u8],
) -> Result<bool, Exit>
    ensures { (q : State) (led : Led) (s : List ℕ) → AsIsText q (record { block = framed_around header body.now; led = led }) s [] →
        WritesFlaws (block_place prefix.now at.number at.place) led.flaws (W.contents output.old) (W.contents output.new) result }
{
    let order = header.endianness;
    match header.type_ {
        BlockType::SectionHeader => {
            let place = place_of(alloc, prefix, at.number, at.place)?;
            put_flaws_of_section(alloc, output, place.as_str(), order, body)
        }
        BlockType::InterfaceDescription => {
            let place = place_of(alloc, prefix, at.number, at.place)?;
            put_flaws_of_interface(alloc, output, place.as_str(), order, body)
        }
        _ => Ok(false),
    }
}

/// Writes a line for each flaw of the block with this header and this body, and returns the facts about the block. The line has the
/// prefix, the block's number and offset, the rule's number and message, and the code of the option with the flaw, if any.
pub(crate) fn put_block<W: Write>(
    alloc: Global,
    output: &mut W,
    prefix: &str,
    at: Spot,
    header: BlockHeader,
    body: &[u8],
) -> Result<Told, Exit>
    ensures { (q : State) (led : Led) (s : List ℕ) → AsIsText q (record { block = framed_around header body.now; led = led }) s [] →
        WritesTold (TellsBy is_flawed (block_lines prefix.now) at.number at.place
        (record { block = framed_around header body.now; led = led })) (W.contents output.old) (W.contents output.new) result }
{
    let has_flaw = put_flaws_of(alloc, output, prefix, at, header, body)?;
    Ok(Told {
        has_number: true,
        has_flaw,
    })
}
