//! The records of name resolution blocks.

ghost use Rattle.std.specs.Prelude.{◌≡◌, ◌≤◌, ◌++◌, false, map, true, All, Any, OnOk};
ghost use Rattle.std.specs.Cow.{cow_str_bytes};
ghost use Rattle.std.specs.List.{flat_map};
ghost use Rattle.pcap_options.specs.Names.{HasNoZero};
ghost use Rattle.pcap_options.specs.Record.{Address, name_record_of, other_of};
ghost use Rattle.pcap_written.specs.Text.{coded_bytes};
ghost use Rattle.pcap_written.specs.Bodies.{address_text, name_text, record_text};
ghost use Rattle.pcap_written.specs.Fits.{IsFitAddress, IsFitRecord};
ghost use Rattle.pcap_written.specs.Flaws.{AddressFlaw, RecordFlaw};
ghost use Rattle.pcap_written.specs.Puts.{MeasuresNames, Puts};

use crate::put::{put_padded, put_padding, put_u16};
use crate::unwritable::{Unput, Unwritable};
use byteorder::ByteOrder;
use pcap_blocks::{Record, UnknownRecord};
use pcap_core::rules::Rule;
use std::alloc::AllocError;
use std::borrow::CowStr;

/// Appends records, one after another.
pub(crate) fn put_records<B: ByteOrder>(
    out: &mut Vec<u8>,
    records: &[Record<'_>],
) -> Result<(), Unput>
    ensures { let rs = map name_record_of records.now in
        Puts (All IsFitRecord rs) (λ flaw. Any (RecordFlaw flaw) rs) (flat_map (record_text B.bytes_of) rs) out.old.items out.new.items result }
{
    for record in records {
        put_record::<B>(out, record)?;
    }
    Ok(())
}

// Appends a record.
fn put_record<B: ByteOrder>(out: &mut Vec<u8>, entry: &Record<'_>) -> Result<(), Unput>
    ensures { let r = name_record_of entry.now in
        Puts (IsFitRecord r) (λ flaw. RecordFlaw flaw r) (record_text B.bytes_of r) out.old.items out.new.items result }
{
    match entry {
        Record::End => Err(Unput::Unfit(Unwritable::EndMisplaced)),
        Record::Ipv4(it) => put_address::<B>(
            out,
            AddressKind {
                type_: 1,
                width: 4,
                too_short: Rule::Ipv4RecordTooShort,
            },
            it.ip_addr.as_slice(),
            it.names.as_slice(),
        ),
        Record::Ipv6(it) => put_address::<B>(
            out,
            AddressKind {
                type_: 2,
                width: 16,
                too_short: Rule::Ipv6RecordTooShort,
            },
            it.ip_addr.as_slice(),
            it.names.as_slice(),
        ),
        Record::Unknown(it) => put_other::<B>(out, it),
    }
}

// A kind of address records: their type, the width of the address in bytes, and the rule that a shorter value breaks.
#[derive(Clone, Copy)]
struct AddressKind {
    type_: u16,
    width: u16,
    too_short: Rule,
}

// Appends a record of an address and its names.
fn put_address<B: ByteOrder>(
    out: &mut Vec<u8>,
    kind: AddressKind,
    address: &[u8],
    names: &[CowStr<'_>],
) -> Result<(), Unput>
    requires { kind.width ≤ 16 }
    ensures { let a : Address = record { bytes = address.now; names = map cow_str_bytes names.now } in
        Puts (IsFitAddress kind.width a) (AddressFlaw kind.width kind.too_short a)
        (coded_bytes B.bytes_of kind.type_ (address_text a)) out.old.items out.new.items result }
{
    if address.len() != kind.width as usize {
        return Err(Unput::Unfit(Unwritable::AddressLengthDiffers));
    }
    let len = names_len(names)?;
    if len < 2 {
        return Err(Unput::Unfit(Unwritable::Breaks(kind.too_short)));
    }
    if len > 65535 - kind.width {
        return Err(Unput::Unfit(Unwritable::RecordTooLong));
    }
    let len = kind.width + len;
    put_u16::<B>(out, kind.type_)?;
    put_u16::<B>(out, len)?;
    out.extend_from_slice(address)?;
    put_names(out, names)?;
    put_padding(out, len as usize)?;
    Ok(())
}

// Returns the number of bytes of the names and their zero bytes.
fn names_len(names: &[CowStr<'_>]) -> Result<u16, Unwritable>
    ensures { MeasuresNames (map cow_str_bytes names.now) result }
{
    let mut len: u16 = 0;
    for name in names {
        let name = name.as_bytes();
        if has_zero(name) {
            return Err(Unwritable::NameWithZero);
        }
        if name.len() >= (65535 - len) as usize {
            return Err(Unwritable::RecordTooLong);
        }
        len += name.len() as u16 + 1;
    }
    Ok(len)
}

fn has_zero(bytes: &[u8]) -> bool
    ensures found { result ≡ true → HasNoZero bytes.now → ⊥ }
    ensures none { result ≡ false → HasNoZero bytes.now }
{
    for byte in bytes {
        if *byte == 0 {
            return true;
        }
    }
    false
}

// Appends names, each followed by a zero byte.
fn put_names(out: &mut Vec<u8>, names: &[CowStr<'_>]) -> Result<(), AllocError>
    ensures { OnOk result (out.new.items ≡ out.old.items ++ flat_map name_text (map cow_str_bytes names.now)) }
{
    for name in names {
        out.extend_from_slice(name.as_bytes())?;
        out.extend_from_slice(&[0])?;
    }
    Ok(())
}

// Appends a record of a type without a name.
fn put_other<B: ByteOrder>(out: &mut Vec<u8>, other: &UnknownRecord<'_>) -> Result<(), Unput>
    ensures { let r = other_of other.now in
        Puts (IsFitRecord r) (λ flaw. RecordFlaw flaw r) (record_text B.bytes_of r) out.old.items out.new.items result }
{
    if other.type_ <= 2 {
        return Err(Unput::Unfit(Unwritable::RecordMisnamed));
    }
    let value = other.value.as_slice();
    if value.len() != other.length as usize {
        return Err(Unput::Unfit(Unwritable::RecordLengthDiffers));
    }
    put_u16::<B>(out, other.type_)?;
    put_u16::<B>(out, other.length)?;
    put_padded(out, value)?;
    Ok(())
}
