//! Options that every kind of block has, and lists of options.

ghost use Rattle.std.specs.Prelude.{◌≡◌, [], ◌∷◌, ◌++◌, length, map, All, IsOk, IfOk, IfSome, IfErr, OnOk};
ghost use Rattle.std.specs.Option.{option_map};
ghost use Rattle.pcap_core.specs.Answer.{TellsAll};
ghost use Rattle.pcap_options.specs.Refusal.{Finds, FindsWhere, FindsAll};
ghost use Rattle.pcap_options.specs.Values.{Kind, CustomBytes, CustomStr, Unknown, shape_at, custom_string, custom_bytes, EntrySays, value_bytes, integer_in};
ghost use Rattle.pcap_options.specs.Options.{may_end_with_body, OptionSays, ListSays, OptionsMayGrow};
ghost use Rattle.pcap_options.specs.CommonOptions.{unknown_entry, custom_bytes_entry, custom_string_entry, UnknownIsBorrowed, CustomBytesIsBorrowed};
ghost use Rattle.pcap_options.specs.CommonOptions.{CustomStringIsBorrowed, UnknownIsOwned, CustomBytesIsOwned, CustomStringIsOwned};
ghost use Rattle.pcap_core.specs.Errors.{IsMemory};

use crate::held::HoldsEntry;
use crate::kept_fields;
use crate::owned::IntoStatic;
use crate::refusal::Refusal;
use crate::values::string_value;
use byteorder::ByteOrder;
use pcap_core::fields::{split_padded, split_u16};
use pcap_core::rules::Rule;
use pcap_core::{CowBytes, ResultParsing};
use std::alloc::{AllocError, Global};
use std::borrow::CowStr;

/// An option whose code this library doesn't know for its kind of block ('Options').
#[derive(Clone, Debug, Drop)]
pub struct UnknownOption<'a> {
    code: u16,
    length: u16,
    value: CowBytes<'a>,
}

impl<'a> UnknownOption<'a> {
    /// Makes an option with this code, length in bytes and value.
    pub fn new(code: u16, len: u16, value: &'a [u8]) -> Self
        ensures option { unknown_entry result ≡ record { code = code; value = Unknown len value.now } }
        ensures borrowed { UnknownIsBorrowed result }
    {
        UnknownOption {
            code,
            length: len,
            value: CowBytes::Borrowed(value),
        }
    }

    /// Makes an option with this code and length in bytes, which owns its value.
    pub fn from_vec(code: u16, len: u16, value: Vec<u8>) -> Self
        ensures option { unknown_entry result ≡ record { code = code; value = Unknown len value.items } }
        ensures owned { UnknownIsOwned result }
    {
        UnknownOption {
            code,
            length: len,
            value: CowBytes::Owned(value),
        }
    }

    /// Returns the option's code.
    pub fn code(&self) -> u16
        ensures { result ≡ (unknown_entry self.now).code }
    {
        self.code
    }

    /// Returns the length of the option's value in bytes, as it was given when the option was made.
    pub fn length(&self) -> u16
        ensures { result ≡ integer_in (unknown_entry self.now).value }
    {
        self.length
    }

    /// Returns the option's value.
    pub fn value(&self) -> &[u8]
        ensures { result.now ≡ value_bytes (unknown_entry self.now).value }
    {
        self.value.as_slice()
    }

    /// Returns the same option with its own bytes and strings: it copies borrowed ones and keeps owned ones.
    ///
    /// Returns `OutOfMemory` if an allocation fails; the value is then dropped.
    pub fn into_owned(self, alloc: Global) -> ResultParsing<UnknownOption<'static>>
        ensures same { IfOk result (λ kept. unknown_entry kept ≡ unknown_entry self.entry) }
        ensures owned { IfOk result UnknownIsOwned }
        ensures memory { IfErr result IsMemory }
        ensures kept { UnknownIsOwned self.entry → IsOk result }
    {
        Ok(self.into_static(alloc)?)
    }
}

/// A custom option whose value is bytes, with the number of an enterprise ('Custom Options', codes 2989 and 19373).
#[derive(Clone, Debug, Drop)]
pub struct CustomBinaryOption<'a> {
    code: u16,
    pen: u32,
    value: CowBytes<'a>,
}

impl<'a> CustomBinaryOption<'a> {
    /// Makes a custom option with this code, enterprise number and bytes.
    pub fn new(code: u16, pen: u32, value: &'a [u8]) -> Self
        ensures option { custom_bytes_entry result ≡ record { code = code; value = CustomBytes pen value.now } }
        ensures borrowed { CustomBytesIsBorrowed result }
    {
        CustomBinaryOption {
            code,
            pen,
            value: CowBytes::Borrowed(value),
        }
    }

    pub(crate) fn read<B: ByteOrder>(code: u16, src: &'a [u8]) -> Result<Self, Refusal>
        ensures tells { FindsAll (EntrySays B.number_of custom_bytes code src.now) custom_bytes_entry result }
        ensures borrowed { IfOk result CustomBytesIsBorrowed }
    {
        if src.len() < 4 {
            return Err(Refusal::Io);
        }
        let (pen, bytes) = src.split_at(4);
        Ok(CustomBinaryOption {
            code,
            pen: B::read_u32(pen),
            value: CowBytes::Borrowed(bytes),
        })
    }

    /// Reads the custom option with this code from a slice that is its whole value.
    ///
    /// Returns `IoError` for fewer than 4 bytes.
    pub fn from_slice<B: ByteOrder>(code: u16, src: &'a [u8]) -> ResultParsing<Self>
        ensures tells { TellsAll (EntrySays B.number_of custom_bytes code src.now) custom_bytes_entry result }
        ensures borrowed { IfOk result CustomBytesIsBorrowed }
    {
        Ok(CustomBinaryOption::read::<B>(code, src)?)
    }

    /// Returns the option's code.
    pub fn code(&self) -> u16
        ensures { result ≡ (custom_bytes_entry self.now).code }
    {
        self.code
    }

    /// Returns the enterprise number, which IANA assigns.
    pub fn pen(&self) -> u32
        ensures { result ≡ integer_in (custom_bytes_entry self.now).value }
    {
        self.pen
    }

    /// Returns the option's bytes after the enterprise number.
    pub fn value(&self) -> &[u8]
        ensures { result.now ≡ value_bytes (custom_bytes_entry self.now).value }
    {
        self.value.as_slice()
    }

    /// Returns the same option with its own bytes and strings: it copies borrowed ones and keeps owned ones.
    ///
    /// Returns `OutOfMemory` if an allocation fails; the value is then dropped.
    pub fn into_owned(self, alloc: Global) -> ResultParsing<CustomBinaryOption<'static>>
        ensures same { IfOk result (λ kept. custom_bytes_entry kept ≡ custom_bytes_entry self.entry) }
        ensures owned { IfOk result CustomBytesIsOwned }
        ensures memory { IfErr result IsMemory }
        ensures kept { CustomBytesIsOwned self.entry → IsOk result }
    {
        Ok(self.into_static(alloc)?)
    }
}

/// A custom option whose value is a string, with the number of an enterprise ('Custom Options', codes 2988 and 19372).
#[derive(Clone, Debug, Drop)]
pub struct CustomUtf8Option<'a> {
    code: u16,
    pen: u32,
    value: CowStr<'a>,
}

impl<'a> CustomUtf8Option<'a> {
    /// Makes a custom option with this code, enterprise number and string.
    pub fn new(code: u16, pen: u32, value: &'a str) -> Self
        ensures option { custom_string_entry result ≡ record { code = code; value = CustomStr pen value.now } }
        ensures borrowed { CustomStringIsBorrowed result }
    {
        CustomUtf8Option {
            code,
            pen,
            value: CowStr::Borrowed(value),
        }
    }

    pub(crate) fn read<B: ByteOrder>(code: u16, src: &'a [u8]) -> Result<Self, Refusal>
        ensures tells { FindsAll (EntrySays B.number_of custom_string code src.now) custom_string_entry result }
        ensures borrowed { IfOk result CustomStringIsBorrowed }
    {
        if src.len() < 4 {
            return Err(Refusal::Io);
        }
        let (pen, value) = src.split_at(4);
        Ok(CustomUtf8Option {
            code,
            pen: B::read_u32(pen),
            value: string_value(value)?,
        })
    }

    /// Reads the custom option with this code from a slice that is its whole value.
    ///
    /// Returns `IoError` for fewer than 4 bytes, and `Utf8Error` if the string after them isn't UTF-8.
    pub fn from_slice<B: ByteOrder>(code: u16, src: &'a [u8]) -> ResultParsing<Self>
        ensures tells { TellsAll (EntrySays B.number_of custom_string code src.now) custom_string_entry result }
        ensures borrowed { IfOk result CustomStringIsBorrowed }
    {
        Ok(CustomUtf8Option::read::<B>(code, src)?)
    }

    /// Returns the option's code.
    pub fn code(&self) -> u16
        ensures { result ≡ (custom_string_entry self.now).code }
    {
        self.code
    }

    /// Returns the enterprise number, which IANA assigns.
    pub fn pen(&self) -> u32
        ensures { result ≡ integer_in (custom_string_entry self.now).value }
    {
        self.pen
    }

    /// Returns the option's string after the enterprise number.
    pub fn value(&self) -> &str
        ensures { result.now ≡ value_bytes (custom_string_entry self.now).value }
    {
        &self.value
    }

    /// Returns the same option with its own bytes and strings: it copies borrowed ones and keeps owned ones.
    ///
    /// Returns `OutOfMemory` if an allocation fails; the value is then dropped.
    pub fn into_owned(self, alloc: Global) -> ResultParsing<CustomUtf8Option<'static>>
        ensures same { IfOk result (λ kept. custom_string_entry kept ≡ custom_string_entry self.entry) }
        ensures owned { IfOk result CustomStringIsOwned }
        ensures memory { IfErr result IsMemory }
        ensures kept { CustomStringIsOwned self.entry → IsOk result }
    {
        Ok(self.into_static(alloc)?)
    }
}

/// The options of one kind of block.
pub trait PcapNgOption<'a>: HoldsEntry + Sized {
    // The shapes of the values, by code.
    ghost kind: { Kind };

    // The option's string or bytes, if it has any, are borrowed.
    ghost is_borrowed: { Self → Type 0 };

    /// Reads the option with this code from a slice that is its whole value. The length must be the slice's.
    fn from_value<B: ByteOrder>(code: u16, len: u16, value: &'a [u8]) -> Result<Self, Refusal>
        requires { len ≡ length value.now }
        ensures tells { FindsAll (EntrySays B.number_of (shape_at kind code) code value.now) Self.entry result }
        ensures borrowed { IfOk result is_borrowed };
}

/// A kind of option whose lists more than one crate reads. They all call the kind's own function, so that there is only
/// one.
pub trait ListedOption<'a>: PcapNgOption<'a> {
    /// Reads the list of options of this kind at the front of a slice, and returns the bytes after it and the options.
    fn list_from_slice<B: ByteOrder>(
        alloc: Global,
        slice: &'a [u8],
    ) -> Result<(&'a [u8], Vec<Self>), Refusal>
        ensures tells { FindsWhere (OptionsMayGrow B.number_of Self.kind slice.now) (ListSays may_end_with_body B.number_of Self.kind slice.now)
            (λ options. map Self.entry options.items) result }
        ensures borrowed { IfOk result (λ x. All Self.is_borrowed x.1.items) };
}

// Reads the option at the front of a slice, and returns the bytes after it and the option. The end-of-options option
// gives None.
#[inline(always)]
fn option_from_slice<'a, O: PcapNgOption<'a>, B: ByteOrder>(
    slice: &'a [u8],
) -> Result<(&'a [u8], Option<O>), Refusal>
    ensures tells { Finds (OptionSays B.number_of O.kind slice.now) (option_map O.entry) result }
    ensures borrowed { IfOk result (λ x. IfSome x.1 O.is_borrowed) }
{
    if slice.len() < 4 {
        return Err(Refusal::Invalid(Rule::OptionTooShort));
    }
    let (code, rest) = split_u16::<B>(slice);
    let (len, rest) = split_u16::<B>(rest);
    if code == 0 {
        return Ok((rest, None));
    }
    let Some((value, rest)) = split_padded(rest, len as usize) else {
        return Err(Refusal::Invalid(Rule::OptionCut));
    };
    let option = O::from_value::<B>(code, len, value)?;
    Ok((rest, Some(option)))
}

// Appends an option. The first option reserves space for eight, so that most lists allocate once.
#[inline(always)]
fn append<O: Drop>(alloc: Global, options: &mut Vec<O>, option: O) -> Result<(), AllocError>
    ensures items { OnOk result (options.new.items ≡ options.old.items ++ option ∷ []) }
{
    if options.is_empty() {
        *options = Vec::with_capacity(alloc, 8)?;
        options.push_reserved(option);
    } else {
        options.push(option)?;
    }
    Ok(())
}

/// Reads the list of options at the front of a slice, and returns the bytes after it and the options.
pub fn options_from_slice<'a, O: PcapNgOption<'a> + Drop, B: ByteOrder>(
    alloc: Global,
    slice: &'a [u8],
) -> Result<(&'a [u8], Vec<O>), Refusal>
    ensures tells { FindsWhere (OptionsMayGrow B.number_of O.kind slice.now) (ListSays may_end_with_body B.number_of O.kind slice.now)
        (λ options. map O.entry options.items) result }
    ensures borrowed { IfOk result (λ x. All O.is_borrowed x.1.items) }
{
    let mut options = Vec::new(alloc);
    let mut rest = slice;
    while !rest.is_empty() {
        let (after, option) = option_from_slice::<O, B>(rest)?;
        rest = after;
        match option {
            None => return Ok((rest, options)),
            Some(option) => append(alloc, &mut options, option)?,
        }
    }
    Ok((rest, options))
}

impl<'a> IntoStatic for UnknownOption<'a> {
    type Owned = UnknownOption<'static>;

    ghost is_same = { λ value kept. unknown_entry kept ≡ unknown_entry value };

    ghost is_owned = { UnknownIsOwned };

    ghost needs_no_memory = { UnknownIsOwned };

    fn into_static(self, alloc: Global) -> Result<UnknownOption<'static>, AllocError> {
        kept_fields!(self alloc UnknownOption { code length } held { value })
    }
}

impl<'a> IntoStatic for CustomBinaryOption<'a> {
    type Owned = CustomBinaryOption<'static>;

    ghost is_same = { λ value kept. custom_bytes_entry kept ≡ custom_bytes_entry value };

    ghost is_owned = { CustomBytesIsOwned };

    ghost needs_no_memory = { CustomBytesIsOwned };

    fn into_static(self, alloc: Global) -> Result<CustomBinaryOption<'static>, AllocError> {
        kept_fields!(self alloc CustomBinaryOption { code pen } held { value })
    }
}

impl<'a> IntoStatic for CustomUtf8Option<'a> {
    type Owned = CustomUtf8Option<'static>;

    ghost is_same = { λ value kept. custom_string_entry kept ≡ custom_string_entry value };

    ghost is_owned = { CustomStringIsOwned };

    ghost needs_no_memory = { CustomStringIsOwned };

    fn into_static(self, alloc: Global) -> Result<CustomUtf8Option<'static>, AllocError> {
        kept_fields!(self alloc CustomUtf8Option { code pen } held { value })
    }
}
