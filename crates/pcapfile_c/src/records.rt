//! Reads the addresses of name resolution blocks of PcapNg captures in memory, and their names.

ghost use Rattle.std.specs.Prelude.{◌≡◌, ◌<◌, ◌^◌, None, Some};
ghost use Rattle.pcap_core.specs.declared.common.Endianness.{Endianness};
ghost use Rattle.pcap_core.specs.Answer.{number_in};
ghost use Rattle.pcap_options.specs.Record.{form_of};
ghost use Rattle.pcap_blocks.specs.SectionHeader.{magic_order};
ghost use Rattle.pcapfile_c.specs.Bodies.{RefusesSection};
ghost use Rattle.pcapfile_c.specs.Records.{TakesRecord, TakesName, RecordTells, RecordsTell, ValueTells, AddressTells, NamesTell};
ghost use Rattle.pcapfile_c.specs.Readers.{reader};

use byteorder::{BigEndian, ByteOrder, LittleEndian};
use pcap_blocks::str_from_u8_null_terminated;
use pcap_core::fields::{split_padded, split_u16};
use pcap_core::rules::Rule;
use pcap_core::{Endianness, PcapError, ResultParsing};
use pcapfile_values::blocks::PcapfileSection;
use pcapfile_values::errors::{PcapfileError, tell, tell_broken};
use pcapfile_values::shown::PcapfileBytes;
use std::io;

/// A record of a name resolution block, whose bytes are borrowed from the capture. In C: `pcapfile_record`.
#[repr(C)]
#[derive(Clone, Copy)]
pub struct PcapfileRecord<'a> {
    /// 1 for an IPv4 address, 2 for an IPv6 address, or another number.
    pub type_: u16,
    /// The address, of 4 or 16 bytes, or for another type the whole value.
    pub address: &'a [u8],
    /// The names of the address, each with a zero byte after it. Empty for another type.
    pub names: &'a [u8],
}

/// Reads the record at the front of `left` and all of its names, and moves `left` after it. Status 8: the records end there.
#[unsafe(no_mangle)]
pub extern "C" fn pcapfile_take_record<'a>(
    section: &PcapfileSection,
    left: &mut PcapfileBytes<'a>,
    shown: &mut PcapfileRecord<'a>,
    error: &mut PcapfileError,
) -> i32
    ensures taken { (e : Endianness) → magic_order section.now.magic_number ≡ Some e →
        TakesRecord e (reader left.old shown.old error.old) (reader left.new shown.new error.new) result }
    ensures refused { magic_order section.now.magic_number ≡ None →
        (left.new ≡ left.old) × RefusesSection shown.old shown.new error.new result }
{
    let Some(order) = section.endianness() else {
        return tell_broken(Rule::SectionMagic, error);
    };
    match record_at(order, left.bytes) {
        Ok((rest, Some(found))) => {
            *shown = found;
            left.bytes = rest;
            0
        }
        Ok((_rest, None)) => 8,
        Err(e) => tell(&e, error),
    }
}

/// Reads the name at the front of `left`, which ends before a zero byte, and moves `left` after that. Status 8: nothing is left.
#[unsafe(no_mangle)]
pub extern "C" fn pcapfile_take_name<'a>(
    left: &mut PcapfileBytes<'a>,
    name: &mut PcapfileBytes<'a>,
    error: &mut PcapfileError,
) -> i32
    ensures { TakesName (reader left.old name.old error.old) (reader left.new name.new error.new) result }
{
    if left.bytes.is_empty() {
        return 8;
    }
    match str_from_u8_null_terminated(left.bytes) {
        Ok((rest, found)) => {
            name.bytes = found.as_bytes();
            left.bytes = rest;
            0
        }
        Err(e) => tell(&e, error),
    }
}

// Returns what follows the record at the front of a slice, and the record, or None for the end of the records.
fn record_at<'a>(
    order: Endianness,
    slice: &'a [u8],
) -> ResultParsing<(&'a [u8], Option<PcapfileRecord<'a>>)>
    ensures { RecordTells (number_in order) slice.now result }
{
    match order {
        Endianness::Big => record_in::<BigEndian>(slice),
        Endianness::Little => record_in::<LittleEndian>(slice),
    }
}

// Returns what follows the records of a body and their end.
pub(crate) fn behind_records<B: ByteOrder>(body: &[u8]) -> ResultParsing<&[u8]>
    ensures { RecordsTell B.number_of body.now result }
{
    let mut left = body;
    loop {
        let (rest, record) = record_in::<B>(left)?;
        left = rest;
        match record {
            Some(_) => {}
            None => return Ok(rest),
        }
    }
}

// Does the same as `record_at`, with the byte order as a type.
fn record_in<'a, B: ByteOrder>(
    slice: &'a [u8],
) -> ResultParsing<(&'a [u8], Option<PcapfileRecord<'a>>)>
    ensures { RecordTells B.number_of slice.now result }
{
    if slice.len() < 4 {
        return Err(PcapError::from(io::Error::from(io::ErrorKind::UnexpectedEof)));
    }
    let (type_, rest) = split_u16::<B>(slice);
    let (len, after) = split_u16::<B>(rest);
    if after.len() < len as usize {
        return Err(PcapError::from(Rule::RecordCut));
    }
    let (value, _more) = after.split_at(len as usize);
    let record = record_of(type_, value)?;
    match split_padded(after, len as usize) {
        Some((_value, rest)) => Ok((rest, record)),
        None => Err(PcapError::from(Rule::RecordUnpadded)),
    }
}

// Returns the record of this type whose value is the whole slice, or None for the end of the records.
fn record_of<'a>(type_: u16, value: &'a [u8]) -> ResultParsing<Option<PcapfileRecord<'a>>>
    ensures { ValueTells (form_of type_) value.now result }
{
    match type_ {
        0 => {
            if value.is_empty() {
                Ok(None)
            } else {
                Err(PcapError::from(Rule::EndNotEmpty))
            }
        }
        1 => Ok(Some(address_of(type_, value, 4, Rule::Ipv4RecordTooShort)?)),
        2 => Ok(Some(address_of(type_, value, 16, Rule::Ipv6RecordTooShort)?)),
        _ => Ok(Some(PcapfileRecord {
            type_,
            address: value,
            names: &[],
        })),
    }
}

// Returns the record of this type whose value is an address of this width and its names.
fn address_of<'a>(
    type_: u16,
    value: &'a [u8],
    width: usize,
    too_short: Rule,
) -> ResultParsing<PcapfileRecord<'a>>
    requires { width < 2 ^ 16 }
    ensures { AddressTells type_ width too_short value.now result }
{
    if value.len() < width + 2 {
        return Err(PcapError::from(too_short));
    }
    let (address, names) = value.split_at(width);
    read_names(names)?;
    Ok(PcapfileRecord {
        type_,
        address,
        names,
    })
}

// Checks that the whole slice is a list of names.
fn read_names(names: &[u8]) -> ResultParsing<()>
    ensures { NamesTell names.now result }
{
    let mut left = names;
    while !left.is_empty() {
        let (rest, _name) = str_from_u8_null_terminated(left)?;
        left = rest;
    }
    Ok(())
}
