//! Records of a name resolution block.

ghost use Rattle.std.specs.Prelude.{◌≡◌, ◌≤◌, length, IsOk, IfOk, IfErr};
ghost use Rattle.pcap_core.specs.Answer.{TellsWhere, TellsAllWhere};
ghost use Rattle.pcap_core.specs.declared.rules.Rule.TheVariants.{Ipv4RecordTooShort, Ipv6RecordTooShort};
ghost use Rattle.pcap_options.specs.Refusal.{FindsWhere, FindsAllWhere};
ghost use Rattle.pcap_options.specs.Record.{AddressSays, address_of, AddressIsBorrowed, form_of, RecordValueSays, RecordSays, ipv4_of, ipv6_of};
ghost use Rattle.pcap_options.specs.Record.{name_record_of, Ipv4IsBorrowed, Ipv6IsBorrowed, RecordIsBorrowed, other_of, Ipv4IsOwned};
ghost use Rattle.pcap_options.specs.Record.{Ipv4NeedsNoMemory, Ipv6IsOwned, Ipv6NeedsNoMemory, UnknownRecordIsOwned, RecordIsOwned};
ghost use Rattle.pcap_options.specs.Record.{RecordNeedsNoMemory, AddressMayGrow, RecordValueMayGrow, RecordMayGrow};
ghost use Rattle.pcap_core.specs.Errors.{IsMemory};

use crate::kept_fields;
use crate::names::names_from_slice;
use crate::owned::IntoStatic;
use crate::refusal::Refusal;
use byteorder::ByteOrder;
use pcap_core::fields::{split_padded, split_u16};
use pcap_core::rules::Rule;
use pcap_core::{CowBytes, ResultParsing};
use std::alloc::{AllocError, Global};
use std::borrow::CowStr;

/// An IPv4 address and its names (nrb_record_ipv4 of 'Name Resolution Block').
#[derive(Clone, Debug, Drop)]
pub struct Ipv4Record<'a> {
    /// The address, 4 bytes.
    pub ip_addr: CowBytes<'a>,
    /// The names of the address.
    pub names: Vec<CowStr<'a>>,
}

impl<'a> Ipv4Record<'a> {
    /// Reads an IPv4 address and its names from a slice that is a record's whole value. They are borrowed from the
    /// slice.
    ///
    /// Returns `InvalidField` for fewer than 6 bytes. Then the first malformed name decides: `InvalidField` if no zero
    /// byte follows it, and `Utf8Error` if it isn't UTF-8. Returns `OutOfMemory` if an allocation fails, which can
    /// happen only if there is a name.
    pub fn from_slice(alloc: Global, slice: &'a [u8]) -> ResultParsing<Self>
        ensures tells { TellsAllWhere (AddressMayGrow 4 slice.now) (AddressSays 4 Ipv4RecordTooShort slice.now) ipv4_of result }
        ensures borrowed { IfOk result Ipv4IsBorrowed }
    {
        Ok(Ipv4Record::read(alloc, slice)?)
    }

    fn read(alloc: Global, slice: &'a [u8]) -> Result<Self, Refusal>
        ensures tells { FindsAllWhere (AddressMayGrow 4 slice.now) (AddressSays 4 Ipv4RecordTooShort slice.now) ipv4_of result }
        ensures borrowed { IfOk result Ipv4IsBorrowed }
    {
        let (ip_addr, names) = address_from_slice(alloc, slice, 4, Rule::Ipv4RecordTooShort)?;
        Ok(Ipv4Record { ip_addr, names })
    }

    /// Returns the same record with its own bytes and strings: it copies borrowed ones and keeps owned ones.
    ///
    /// Returns `OutOfMemory` if an allocation fails; the value is then dropped.
    pub fn into_owned(self, alloc: Global) -> ResultParsing<Ipv4Record<'static>>
        ensures same { IfOk result (λ kept. ipv4_of kept ≡ ipv4_of self.entry) }
        ensures owned { IfOk result Ipv4IsOwned }
        ensures memory { IfErr result IsMemory }
        ensures kept { Ipv4NeedsNoMemory self.entry → IsOk result }
    {
        Ok(self.into_static(alloc)?)
    }
}

/// An IPv6 address and its names (nrb_record_ipv6 of 'Name Resolution Block').
#[derive(Clone, Debug, Drop)]
pub struct Ipv6Record<'a> {
    /// The address, 16 bytes.
    pub ip_addr: CowBytes<'a>,
    /// The names of the address.
    pub names: Vec<CowStr<'a>>,
}

impl<'a> Ipv6Record<'a> {
    /// Reads an IPv6 address and its names from a slice that is a record's whole value. They are borrowed from the
    /// slice.
    ///
    /// Returns `InvalidField` for fewer than 18 bytes. Then the first malformed name decides: `InvalidField` if no zero
    /// byte follows it, and `Utf8Error` if it isn't UTF-8. Returns `OutOfMemory` if an allocation fails, which can
    /// happen only if there is a name.
    pub fn from_slice(alloc: Global, slice: &'a [u8]) -> ResultParsing<Self>
        ensures tells { TellsAllWhere (AddressMayGrow 16 slice.now) (AddressSays 16 Ipv6RecordTooShort slice.now) ipv6_of result }
        ensures borrowed { IfOk result Ipv6IsBorrowed }
    {
        Ok(Ipv6Record::read(alloc, slice)?)
    }

    fn read(alloc: Global, slice: &'a [u8]) -> Result<Self, Refusal>
        ensures tells { FindsAllWhere (AddressMayGrow 16 slice.now) (AddressSays 16 Ipv6RecordTooShort slice.now) ipv6_of result }
        ensures borrowed { IfOk result Ipv6IsBorrowed }
    {
        let (ip_addr, names) = address_from_slice(alloc, slice, 16, Rule::Ipv6RecordTooShort)?;
        Ok(Ipv6Record { ip_addr, names })
    }

    /// Returns the same record with its own bytes and strings: it copies borrowed ones and keeps owned ones.
    ///
    /// Returns `OutOfMemory` if an allocation fails; the value is then dropped.
    pub fn into_owned(self, alloc: Global) -> ResultParsing<Ipv6Record<'static>>
        ensures same { IfOk result (λ kept. ipv6_of kept ≡ ipv6_of self.entry) }
        ensures owned { IfOk result Ipv6IsOwned }
        ensures memory { IfErr result IsMemory }
        ensures kept { Ipv6NeedsNoMemory self.entry → IsOk result }
    {
        Ok(self.into_static(alloc)?)
    }
}

// Reads an address of this width, and the names that follow it to the end of a slice.
fn address_from_slice(
    alloc: Global,
    slice: &[u8],
    width: usize,
    too_short: Rule,
) -> Result<(CowBytes<'_>, Vec<CowStr<'_>>), Refusal>
    requires { width ≤ 16 }
    ensures tells { FindsAllWhere (AddressMayGrow width slice.now) (AddressSays width too_short slice.now) (λ x. address_of x.0 x.1.items) result }
    ensures borrowed { IfOk result (λ x. AddressIsBorrowed x.0 x.1.items) }
{
    if slice.len() < width + 2 {
        return Err(Refusal::Invalid(too_short));
    }
    let (ip_addr, rest) = slice.split_at(width);
    Ok((CowBytes::Borrowed(ip_addr), names_from_slice(alloc, rest)?))
}

/// A name record of an unknown type ('Name Resolution Block').
#[derive(Clone, Debug, Drop)]
pub struct UnknownRecord<'a> {
    /// The record's type.
    pub type_: u16,
    /// The length of the record's value in bytes.
    pub length: u16,
    /// The record's value.
    pub value: CowBytes<'a>,
}

/// A record of a name resolution block ('Name Resolution Block').
#[derive(Clone, Debug, Drop)]
pub enum Record<'a> {
    /// The end of the records (nrb_record_end, type 0).
    End,
    /// An IPv4 address and its names (type 1).
    Ipv4(Ipv4Record<'a>),
    /// An IPv6 address and its names (type 2).
    Ipv6(Ipv6Record<'a>),
    /// A record of another type.
    Unknown(UnknownRecord<'a>),
}

impl<'a> Record<'a> {
    /// Reads the record at the front of a slice, and returns the bytes after its padding and the record. Strings and
    /// bytes are borrowed from the slice.
    ///
    /// The first broken rule decides the error, in this order. `IoError` for fewer than 4 bytes. `InvalidField` if the
    /// slice ends inside the value, or if the length doesn't fit the type. `InvalidField` if no zero byte follows a
    /// name, or `Utf8Error` if a name isn't UTF-8. `InvalidField` if the slice ends inside the padding.
    ///
    /// Returns `OutOfMemory` if an allocation fails, which can happen only if there is a name.
    pub fn from_slice<B: ByteOrder>(
        alloc: Global,
        slice: &'a [u8],
    ) -> ResultParsing<(&'a [u8], Self)>
        ensures tells { TellsWhere (RecordMayGrow B.number_of slice.now) (RecordSays B.number_of slice.now) name_record_of result }
        ensures borrowed { IfOk result (λ x. RecordIsBorrowed x.1) }
    {
        Ok(Record::read::<B>(alloc, slice)?)
    }

    pub(crate) fn read<B: ByteOrder>(
        alloc: Global,
        slice: &'a [u8],
    ) -> Result<(&'a [u8], Self), Refusal>
        ensures tells { FindsWhere (RecordMayGrow B.number_of slice.now) (RecordSays B.number_of slice.now) name_record_of result }
        ensures borrowed { IfOk result (λ x. RecordIsBorrowed x.1) }
    {
        if slice.len() < 4 {
            return Err(Refusal::Io);
        }
        let (type_, rest) = split_u16::<B>(slice);
        let (len, after) = split_u16::<B>(rest);
        if after.len() < len as usize {
            return Err(Refusal::Invalid(Rule::RecordCut));
        }
        let (value, _more) = after.split_at(len as usize);
        let record = Record::from_value(alloc, type_, len, value)?;
        let Some((_value, rest)) = split_padded(after, len as usize) else {
            return Err(Refusal::Invalid(Rule::RecordUnpadded));
        };
        Ok((rest, record))
    }

    // Reads the record of this type from a slice that is its whole value. The length must be the slice's.
    fn from_value(alloc: Global, type_: u16, len: u16, value: &'a [u8]) -> Result<Self, Refusal>
        requires { len ≡ length value.now }
        ensures tells { FindsAllWhere (RecordValueMayGrow (form_of type_) value.now) (RecordValueSays (form_of type_) value.now) name_record_of result }
        ensures borrowed { IfOk result RecordIsBorrowed }
    {
        match type_ {
            0 => {
                if value.is_empty() {
                    Ok(Record::End)
                } else {
                    Err(Refusal::Invalid(Rule::EndNotEmpty))
                }
            }
            1 => Ok(Record::Ipv4(Ipv4Record::read(alloc, value)?)),
            2 => Ok(Record::Ipv6(Ipv6Record::read(alloc, value)?)),
            _ => Ok(Record::Unknown(UnknownRecord {
                type_,
                length: len,
                value: CowBytes::Borrowed(value),
            })),
        }
    }

    /// Returns the same record with its own bytes and strings: it copies borrowed ones and keeps owned ones.
    ///
    /// Returns `OutOfMemory` if an allocation fails; the value is then dropped.
    pub fn into_owned(self, alloc: Global) -> ResultParsing<Record<'static>>
        ensures same { IfOk result (λ kept. name_record_of kept ≡ name_record_of self.entry) }
        ensures owned { IfOk result RecordIsOwned }
        ensures memory { IfErr result IsMemory }
        ensures kept { RecordNeedsNoMemory self.entry → IsOk result }
    {
        Ok(self.into_static(alloc)?)
    }
}

impl<'a> IntoStatic for Ipv4Record<'a> {
    type Owned = Ipv4Record<'static>;

    ghost is_same = { λ value kept. ipv4_of kept ≡ ipv4_of value };

    ghost is_owned = { Ipv4IsOwned };

    ghost needs_no_memory = { Ipv4NeedsNoMemory };

    #[tactic(auto, using(pcap_core::proofs::Kept::map_kept))]
    fn into_static(self, alloc: Global) -> Result<Ipv4Record<'static>, AllocError> {
        kept_fields!(self alloc Ipv4Record {} held { ip_addr } each { names })
    }
}

impl<'a> IntoStatic for Ipv6Record<'a> {
    type Owned = Ipv6Record<'static>;

    ghost is_same = { λ value kept. ipv6_of kept ≡ ipv6_of value };

    ghost is_owned = { Ipv6IsOwned };

    ghost needs_no_memory = { Ipv6NeedsNoMemory };

    #[tactic(auto, using(pcap_core::proofs::Kept::map_kept))]
    fn into_static(self, alloc: Global) -> Result<Ipv6Record<'static>, AllocError> {
        kept_fields!(self alloc Ipv6Record {} held { ip_addr } each { names })
    }
}

impl<'a> UnknownRecord<'a> {
    /// Returns the same record with its own bytes and strings: it copies borrowed ones and keeps owned ones.
    ///
    /// Returns `OutOfMemory` if an allocation fails; the value is then dropped.
    pub fn into_owned(self, alloc: Global) -> ResultParsing<UnknownRecord<'static>>
        ensures same { IfOk result (λ kept. other_of kept ≡ other_of self.entry) }
        ensures owned { IfOk result UnknownRecordIsOwned }
        ensures memory { IfErr result IsMemory }
        ensures kept { UnknownRecordIsOwned self.entry → IsOk result }
    {
        Ok(self.into_static(alloc)?)
    }
}

impl<'a> IntoStatic for UnknownRecord<'a> {
    type Owned = UnknownRecord<'static>;

    ghost is_same = { λ value kept. other_of kept ≡ other_of value };

    ghost is_owned = { UnknownRecordIsOwned };

    ghost needs_no_memory = { UnknownRecordIsOwned };

    fn into_static(self, alloc: Global) -> Result<UnknownRecord<'static>, AllocError> {
        kept_fields!(self alloc UnknownRecord { type_ length } held { value })
    }
}

impl<'a> IntoStatic for Record<'a> {
    type Owned = Record<'static>;

    ghost is_same = { λ value kept. name_record_of kept ≡ name_record_of value };

    ghost is_owned = { RecordIsOwned };

    ghost needs_no_memory = { RecordNeedsNoMemory };

    fn into_static(self, alloc: Global) -> Result<Record<'static>, AllocError> {
        Ok(match self {
            Record::End => Record::End,
            Record::Ipv4(held) => Record::Ipv4(held.into_static(alloc)?),
            Record::Ipv6(held) => Record::Ipv6(held.into_static(alloc)?),
            Record::Unknown(held) => Record::Unknown(held.into_static(alloc)?),
        })
    }
}
