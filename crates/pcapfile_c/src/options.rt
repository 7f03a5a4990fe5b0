//! Finds the options of blocks of PcapNg captures in memory, without reading their values.

ghost use Rattle.std.specs.Prelude.{◌≡◌, None, Some};
ghost use Rattle.pcap_core.specs.declared.common.Endianness.{Endianness};
ghost use Rattle.pcap_core.specs.Answer.{number_in};
ghost use Rattle.pcap_blocks.specs.SectionHeader.{magic_order};
ghost use Rattle.pcapfile_c.specs.Bodies.{RefusesSection};
ghost use Rattle.pcapfile_c.specs.Options.{FindsOptions, TakesOption, OptionsTell, OptionTells, FixedTells, PacketTells};
ghost use Rattle.pcapfile_c.specs.Readers.{reader, target};

use crate::records::behind_records;
use byteorder::{BigEndian, ByteOrder, LittleEndian};
use pcap_blocks::BlockType;
use pcap_core::fields::{split_padded, split_u16, split_u32};
use pcap_core::rules::Rule;
use pcap_core::{Endianness, PcapError, ResultParsing};
use pcapfile_values::blocks::{PcapfileBlock, PcapfileSection};
use pcapfile_values::errors::{PcapfileError, tell, tell_broken};
use pcapfile_values::shown::PcapfileBytes;

/// An option: its code, and its value, which is borrowed from the capture. In C: `pcapfile_option`.
#[repr(C)]
#[derive(Clone, Copy)]
pub struct PcapfileOption<'a> {
    pub code: u16,
    /// The value without padding.
    pub value: &'a [u8],
}

/// Finds the bytes with the options of a block. Status 8: blocks of this type have no options.
#[unsafe(no_mangle)]
pub extern "C" fn pcapfile_options<'a>(
    section: &PcapfileSection,
    block: &PcapfileBlock<'a>,
    options: &mut PcapfileBytes<'a>,
    error: &mut PcapfileError,
) -> i32
    ensures found { (e : Endianness) → magic_order section.now.magic_number ≡ Some e →
        FindsOptions e block.now (target options.old error.old) (target options.new error.new) result }
    ensures refused { magic_order section.now.magic_number ≡ None → RefusesSection options.old options.new error.new result }
{
    let Some(order) = section.endianness() else {
        return tell_broken(Rule::SectionMagic, error);
    };
    match options_of(order, BlockType::from(block.type_), block.body) {
        Ok(Some(found)) => {
            options.bytes = found;
            0
        }
        Ok(None) => 8,
        Err(e) => tell(&e, error),
    }
}

/// Reads the option at the front of `left`, whatever its value is, and moves `left` after it. Status 8: the list ends there, with its end
/// mark or because nothing is left.
#[unsafe(no_mangle)]
pub extern "C" fn pcapfile_take_option<'a>(
    section: &PcapfileSection,
    left: &mut PcapfileBytes<'a>,
    option: &mut PcapfileOption<'a>,
    error: &mut PcapfileError,
) -> i32
    ensures taken { (e : Endianness) → magic_order section.now.magic_number ≡ Some e →
        TakesOption e (reader left.old option.old error.old) (reader left.new option.new error.new) result }
    ensures refused { magic_order section.now.magic_number ≡ None →
        (left.new ≡ left.old) × RefusesSection option.old option.new error.new result }
{
    let Some(order) = section.endianness() else {
        return tell_broken(Rule::SectionMagic, error);
    };
    match option_at(order, left.bytes) {
        Ok(Some((rest, found))) => {
            *option = found;
            left.bytes = rest;
            0
        }
        Ok(None) => 8,
        Err(e) => tell(&e, error),
    }
}

// Returns the bytes with the options of a body of this type, or None if such a body has no options.
fn options_of<'a>(
    order: Endianness,
    type_: BlockType,
    body: &'a [u8],
) -> ResultParsing<Option<&'a [u8]>>
    ensures { OptionsTell (number_in order) type_ body.now result }
{
    match order {
        Endianness::Big => options_in::<BigEndian>(type_, body),
        Endianness::Little => options_in::<LittleEndian>(type_, body),
    }
}

// Does the same, with the byte order as a type.
fn options_in<'a, B: ByteOrder>(type_: BlockType, body: &'a [u8]) -> ResultParsing<Option<&'a [u8]>>
    ensures { OptionsTell B.number_of type_ body.now result }
{
    match type_ {
        BlockType::SectionHeader => Ok(Some(behind(body, 16, Rule::SectionTooShort)?)),
        BlockType::InterfaceDescription => Ok(Some(behind(body, 8, Rule::InterfaceTooShort)?)),
        BlockType::InterfaceStatistics => Ok(Some(behind(body, 12, Rule::StatisticsTooShort)?)),
        BlockType::EnhancedPacket | BlockType::Packet => Ok(Some(behind_packet::<B>(body)?)),
        BlockType::NameResolution => Ok(Some(behind_records::<B>(body)?)),
        _ => Ok(None),
    }
}

// Returns what follows the first `len` bytes of a body.
fn behind(body: &[u8], len: usize, too_short: Rule) -> ResultParsing<&[u8]>
    ensures { FixedTells len too_short body.now result }
{
    if body.len() < len {
        return Err(PcapError::from(too_short));
    }
    let (_head, rest) = body.split_at(len);
    Ok(rest)
}

// Returns what follows the bytes of a packet and their padding in its body.
fn behind_packet<B: ByteOrder>(body: &[u8]) -> ResultParsing<&[u8]>
    ensures { PacketTells B.number_of body.now result }
{
    if body.len() < 20 {
        return Err(PcapError::from(Rule::EnhancedTooShort));
    }
    let (_interface, rest) = body.split_at(4);
    let (_high, rest) = split_u32::<B>(rest);
    let (_low, rest) = split_u32::<B>(rest);
    let (captured_len, rest) = split_u32::<B>(rest);
    let (_original_len, rest) = split_u32::<B>(rest);
    match split_padded(rest, captured_len as usize) {
        Some((_bytes, options)) => Ok(options),
        None => Err(PcapError::from(Rule::EnhancedCut)),
    }
}

// Returns what follows the option at the front of a slice, and the option, or None if the list ends there.
fn option_at<'a>(
    order: Endianness,
    slice: &'a [u8],
) -> ResultParsing<Option<(&'a [u8], PcapfileOption<'a>)>>
    ensures { OptionTells (number_in order) slice.now result }
{
    match order {
        Endianness::Big => option_in::<BigEndian>(slice),
        Endianness::Little => option_in::<LittleEndian>(slice),
    }
}

// Does the same, with the byte order as a type.
fn option_in<'a, B: ByteOrder>(
    slice: &'a [u8],
) -> ResultParsing<Option<(&'a [u8], PcapfileOption<'a>)>>
    ensures { OptionTells B.number_of slice.now result }
{
    if slice.is_empty() {
        return Ok(None);
    }
    if slice.len() < 4 {
        return Err(PcapError::from(Rule::OptionTooShort));
    }
    let (code, rest) = split_u16::<B>(slice);
    let (len, rest) = split_u16::<B>(rest);
    if code == 0 {
        return Ok(None);
    }
    match split_padded(rest, len as usize) {
        Some((value, rest)) => Ok(Some((rest, PcapfileOption { code, value }))),
        None => Err(PcapError::from(Rule::OptionCut)),
    }
}
