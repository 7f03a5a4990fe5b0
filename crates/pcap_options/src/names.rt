//! Names, each followed by a zero byte.

ghost use Rattle.std.specs.Prelude.{◌≡◌, ◌<◌, length, map, take, slice_index, All, IfOk, MatchOption};
ghost use Rattle.std.specs.Cow.{cow_str_bytes, IsBorrowedStr};
ghost use Rattle.pcap_core.specs.Answer.{Tells};
ghost use Rattle.pcap_options.specs.Refusal.{Finds, FindsAllWhere};
ghost use Rattle.pcap_options.specs.Names.{HasNoZero, NameSays, NamesSay, NamesMayGrow};

use crate::refusal::Refusal;
use crate::values::str_value;
use pcap_core::ResultParsing;
use pcap_core::rules::Rule;
use std::alloc::Global;
use std::borrow::CowStr;

// Returns the position of the first zero byte.
fn zero_position(bytes: &[u8]) -> Option<usize>
    ensures { MatchOption result (HasNoZero bytes.now) (λ i. (i < length bytes.now) × (slice_index bytes.now i ≡ 0) × HasNoZero (take i bytes.now)) }
{
    for (i, byte) in bytes.iter().enumerate() {
        if *byte == 0 {
            return Some(i);
        }
    }
    None
}

fn name_from_slice(src: &[u8]) -> Result<(&[u8], &str), Refusal>
    ensures tells { Finds (NameSays src.now) (λ string. string.now) result }
{
    let Some(end) = zero_position(src) else {
        return Err(Refusal::Invalid(Rule::NameUnended));
    };
    let (name, rest) = src.split_at(end);
    let string = str_value(name)?;
    let (_zero, rest) = rest.split_at(1);
    Ok((rest, string))
}

/// Returns the bytes after the first zero byte, and the string before it ('Name Resolution Block').
///
/// Returns `InvalidField` if there is no zero byte, and `Utf8Error` if the string isn't UTF-8.
pub fn str_from_u8_null_terminated(src: &[u8]) -> ResultParsing<(&[u8], &str)>
    ensures tells { Tells (NameSays src.now) (λ string. string.now) result }
{
    Ok(name_from_slice(src)?)
}

// Reads the names that fill a whole slice.
#[inline(never)]
pub(crate) fn names_from_slice(alloc: Global, slice: &[u8]) -> Result<Vec<CowStr<'_>>, Refusal>
    ensures tells { FindsAllWhere (NamesMayGrow slice.now) (NamesSay slice.now) (λ names. map cow_str_bytes names.items) result }
    ensures borrowed { IfOk result (λ names. All IsBorrowedStr names.items) }
{
    let mut names = Vec::new(alloc);
    let mut rest = slice;
    while !rest.is_empty() {
        let (after, name) = name_from_slice(rest)?;
        names.push(CowStr::Borrowed(name))?;
        rest = after;
    }
    Ok(names)
}
