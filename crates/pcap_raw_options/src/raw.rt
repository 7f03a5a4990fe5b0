//! Raw options, whose values are not interpreted.

ghost use Rattle.std.specs.Prelude.{All, IfOk, IfErr, IfSome, MatchResult};
ghost use Rattle.std.specs.Option.{option_map};
ghost use Rattle.pcap_core.specs.Answer.{whole};
ghost use Rattle.pcap_core.specs.Faults.{Invalid};
ghost use Rattle.pcap_options.specs.Options.{may_end_with_body, OptionFault, OptionSays, OptionsMayGrow};
ghost use Rattle.pcap_options.specs.CommonOptions.{UnknownIsBorrowed, unknown_entry};
ghost use Rattle.pcap_raw_options.specs.UpTo.{ReadUpTo, no_kind, up_to_of};

use byteorder::ByteOrder;
use pcap_core::fields::{split_padded, split_u16};
use pcap_core::rules::Rule;
use pcap_options::UnknownOption;
use std::alloc::{AllocError, Global};

/// Raw options of a block, and why the list ends.
#[derive(Debug, Drop)]
pub struct RawOptions<'a> {
    /// Each option before the end mark, the end of the bytes or the flaw, with its code, length and bytes. The bytes are
    /// lent.
    pub options: Vec<UnknownOption<'a>>,
    /// Why no further option can be found: V17 if fewer than 4 bytes are left, or V18 if the option's value and padding
    /// extend past the end. None if the list ends correctly.
    pub flaw: Option<Rule>,
    /// The bytes after the end mark, or from the flaw on.
    pub left: &'a [u8],
}

// Returns the option at the front of a slice, or None for the mark that ends a list, and what follows it. Returns the broken
// rule if there is neither.
fn raw_option<'a, B: ByteOrder>(
    slice: &'a [u8],
) -> Result<(&'a [u8], Option<UnknownOption<'a>>), Rule>
    ensures tells { MatchResult result
        (λ x. OptionSays B.number_of no_kind slice.now (whole (option_map unknown_entry x.1) x.0.now))
        (λ rule. OptionFault B.number_of no_kind slice.now (Invalid rule)) }
    ensures borrowed { IfOk result (λ x. IfSome x.1 UnknownIsBorrowed) }
{
    if slice.len() < 4 {
        return Err(Rule::OptionTooShort);
    }
    let (code, rest) = split_u16::<B>(slice);
    let (len, rest) = split_u16::<B>(rest);
    if code == 0 {
        return Ok((rest, None));
    }
    let Some((value, rest)) = split_padded(rest, len as usize) else {
        return Err(Rule::OptionCut);
    };
    Ok((rest, Some(UnknownOption::new(code, len, value))))
}

/// Reads the raw options at the front of a slice in the byte order `B`: up to the end mark, the end of the slice, or the
/// first place where no option can be found. It checks no value.
///
/// Returns `AllocError` if the list can't grow. It allocates only if there is an option.
pub fn raw_options<'a, B: ByteOrder>(
    alloc: Global,
    slice: &'a [u8],
) -> Result<RawOptions<'a>, AllocError>
    ensures read { IfOk result (λ x. ReadUpTo may_end_with_body B.number_of no_kind (up_to_of x) slice.now) }
    ensures borrowed { IfOk result (λ x. All UnknownIsBorrowed x.options.items) }
    ensures memory { IfErr result (λ _. OptionsMayGrow B.number_of no_kind slice.now) }
{
    let mut options = Vec::new(alloc);
    let mut left = slice;
    while !left.is_empty() {
        let (after, option) = match raw_option::<B>(left) {
            Ok(read) => read,
            Err(rule) => {
                return Ok(RawOptions {
                    options,
                    flaw: Some(rule),
                    left,
                });
            }
        };
        left = after;
        match option {
            Some(option) => options.push(option)?,
            None => break,
        }
    }
    Ok(RawOptions {
        options,
        flaw: None,
        left,
    })
}
