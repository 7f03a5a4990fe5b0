//! Skips options of enhanced packets whose values the reader doesn't need.

ghost use Rattle.std.specs.Prelude.{◌<◌, List, length, MatchOption};
ghost use Rattle.pcap_options.specs.Options.{CodeLengthText};
ghost use Rattle.pcap_options.specs.Values.{Entry};
ghost use Rattle.pcapfile_values.specs.EnhancedOptions.{NoOptions, NoValue, OptionsText, ValueText};

use byteorder::ByteOrder;
use pcap_core::fields::{split_padded, split_u16};

// The codes of options that the reader can skip: flags, a hash, and a count of lost packets.
const FLAGS: u16 = 2;

const HASH: u16 = 3;

const DROP_COUNT: u16 = 4;

// Returns what follows the options at the front of a slice, or None if they are refused or one of them must be read.
#[inline(always)]
pub(crate) fn behind_options<B: ByteOrder>(slice: &[u8]) -> Option<&[u8]>
    ensures { MatchOption result (NoOptions B.number_of slice.now) (λ rest. (options : List Entry) × OptionsText B.number_of options slice.now rest.now) }
{
    if slice.is_empty() {
        Some(slice)
    } else {
        behind_some::<B>(slice)
    }
}

// Does the same for options that aren't empty. It is out of line, since most packets have no options.
#[inline(never)]
fn behind_some<B: ByteOrder>(slice: &[u8]) -> Option<&[u8]>
    ensures { MatchOption result (NoOptions B.number_of slice.now) (λ rest. (options : List Entry) × OptionsText B.number_of options slice.now rest.now) }
{
    let mut left = slice;
    while !left.is_empty() {
        let (code, len, after) = option_head::<B>(left)?;
        if code == 0 {
            return Some(after);
        }
        left = behind_value::<B>(code, len, after)?;
    }
    Some(left)
}

// Returns the code and the length at the front of a slice, of an option or of the end mark, and what follows them.
#[inline(always)]
fn option_head<B: ByteOrder>(slice: &[u8]) -> Option<(u16, u16, &[u8])>
    ensures { MatchOption result (length slice.now < 4) (λ x. CodeLengthText B.number_of x.0 x.1 slice.now x.2.now) }
{
    if slice.len() < 4 {
        return None;
    }
    let (code, rest) = split_u16::<B>(slice);
    let (len, rest) = split_u16::<B>(rest);
    Some((code, len, rest))
}

// Returns what follows the value of an option of this code and length, or None if the value must be read or is refused.
#[inline(always)]
fn behind_value<B: ByteOrder>(code: u16, len: u16, slice: &[u8]) -> Option<&[u8]>
    ensures { MatchOption result (NoValue B.number_of code len slice.now) (λ rest. ValueText B.number_of code len slice.now rest.now) }
{
    let (_value, rest) = split_padded(slice, len as usize)?;
    match code {
        FLAGS if len == 4 => Some(rest),
        HASH => Some(rest),
        DROP_COUNT if len == 8 => Some(rest),
        _ => None,
    }
}
