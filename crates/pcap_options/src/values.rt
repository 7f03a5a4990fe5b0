//! Readers of option values, one for each shape.

ghost use Rattle.std.specs.Prelude.{◌≡◌, IfOk};
ghost use Rattle.std.specs.Cow.{cow_str_bytes, IsBorrowedStr};
ghost use Rattle.pcap_core.specs.Bytes.{cow_bytes, IsBorrowed};
ghost use Rattle.pcap_options.specs.Refusal.{FindsAll};
ghost use Rattle.pcap_options.specs.Values.{Bytes, Integer, AllSay, string_at, fixed_at, some_at, byte_at, number_at, first_number_at, first_time_at};

use crate::refusal::Refusal;
use byteorder::ByteOrder;
use pcap_core::CowBytes;
use pcap_core::rules::Rule;
use std::borrow::CowStr;
use std::str;

// Reads the bytes of a name as a string.
#[tactic(auto, using(crate::proofs::Strings::string_is, crate::proofs::Strings::no_string))]
pub(crate) fn str_value(name: &[u8]) -> Result<&str, Refusal>
    ensures tells { FindsAll (AllSay (string_at name.now)) (λ string. string.now) result }
    ensures same { IfOk result (λ string. string.now ≡ name.now) }
{
    match str::from_utf8(name) {
        Ok(string) => Ok(string),
        Err(e) => Err(Refusal::Utf8(e)),
    }
}

// Reads a string.
#[tactic(auto, using(crate::proofs::Strings::string_is, crate::proofs::Strings::no_string))]
pub(crate) fn string_value(value: &[u8]) -> Result<CowStr<'_>, Refusal>
    ensures tells { FindsAll (AllSay (string_at value.now)) cow_str_bytes result }
    ensures borrowed { IfOk result IsBorrowedStr }
{
    match str::from_utf8(value) {
        Ok(string) => Ok(CowStr::Borrowed(string)),
        Err(e) => Err(Refusal::Utf8(e)),
    }
}

// Reads bytes whose number must be `len`.
pub(crate) fn fixed_value(value: &[u8], len: usize, wrong: Rule) -> Result<CowBytes<'_>, Refusal>
    ensures tells { FindsAll (AllSay (fixed_at len wrong value.now)) (λ b. Bytes (cow_bytes b)) result }
    ensures borrowed { IfOk result IsBorrowed }
{
    if value.len() != len {
        return Err(Refusal::Invalid(wrong));
    }
    Ok(CowBytes::Borrowed(value))
}

// Reads one byte or more.
pub(crate) fn some_value(value: &[u8], empty: Rule) -> Result<CowBytes<'_>, Refusal>
    ensures tells { FindsAll (AllSay (some_at empty value.now)) (λ b. Bytes (cow_bytes b)) result }
    ensures borrowed { IfOk result IsBorrowed }
{
    if value.is_empty() {
        return Err(Refusal::Invalid(empty));
    }
    Ok(CowBytes::Borrowed(value))
}

// Reads a byte as a number.
pub(crate) fn u8_value(value: &[u8], wrong: Rule) -> Result<u8, Refusal>
    ensures tells { FindsAll (AllSay (byte_at wrong value.now)) Integer result }
{
    if value.len() != 1 {
        return Err(Refusal::Invalid(wrong));
    }
    Ok(value[0])
}

// Reads a number of 4 bytes.
pub(crate) fn u32_value<B: ByteOrder>(value: &[u8], wrong: Rule) -> Result<u32, Refusal>
    ensures tells { FindsAll (AllSay (number_at B.number_of 4 wrong value.now)) Integer result }
{
    if value.len() != 4 {
        return Err(Refusal::Invalid(wrong));
    }
    Ok(B::read_u32(value))
}

// Reads a number of 8 bytes.
pub(crate) fn u64_value<B: ByteOrder>(value: &[u8], wrong: Rule) -> Result<u64, Refusal>
    ensures tells { FindsAll (AllSay (number_at B.number_of 8 wrong value.now)) Integer result }
{
    if value.len() != 8 {
        return Err(Refusal::Invalid(wrong));
    }
    Ok(B::read_u64(value))
}

// Reads the number in the first 8 bytes, and ignores the bytes after them.
pub(crate) fn first_number<B: ByteOrder>(value: &[u8]) -> Result<u64, Refusal>
    ensures tells { FindsAll (AllSay (first_number_at B.number_of value.now)) Integer result }
{
    if value.len() < 8 {
        return Err(Refusal::Io);
    }
    let (number, _ignored) = value.split_at(8);
    Ok(B::read_u64(number))
}

// Reads the time in the first 8 bytes, its high half first, and ignores the bytes after them.
pub(crate) fn first_time<B: ByteOrder>(value: &[u8]) -> Result<u64, Refusal>
    ensures tells { FindsAll (AllSay (first_time_at B.number_of value.now)) Integer result }
{
    if value.len() < 8 {
        return Err(Refusal::Io);
    }
    let (high, rest) = value.split_at(4);
    let (low, _ignored) = rest.split_at(4);
    Ok((u64::from(B::read_u32(high)) << 32) + u64::from(B::read_u32(low)))
}
