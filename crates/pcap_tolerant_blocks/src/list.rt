//! Lists of options read leniently.

ghost use Rattle.std.specs.Prelude.{◌≡◌, ◌≢◌, [], ◌∷◌, ◌++◌, length, map, All, Result, Err, IfOk, IfErr, IfSome, OnOk, MatchResult, MatchOption};
ghost use Rattle.pcap_core.specs.Faults.{Fault, Invalid};
ghost use Rattle.pcap_options.specs.Values.{Value, shape_at, value_of};
ghost use Rattle.pcap_options.specs.Refusal.{Denies};
ghost use Rattle.pcap_options.specs.Options.{EndMark, OptionFault};
ghost use Rattle.pcap_options.specs.CommonOptions.{unknown_entry, UnknownIsBorrowed};
ghost use Rattle.pcap_raw_options.specs.UpTo.{no_kind};
ghost use Rattle.pcap_tolerant_blocks.specs.Flaws.{said_of, fault_of};
ghost use Rattle.pcap_tolerant_blocks.specs.OptionsAsIs.{judged, judged_of, JudgedText, ListsAsIs, OptionsGrow, flaws_or_none};

use crate::flaws::{Broken, Flaw};
use byteorder::ByteOrder;
use pcap_blocks::UnknownOption;
use pcap_core::fields::{split_padded, split_u16};
use pcap_core::rules::Rule;
use pcap_options::{PcapNgOption, Refusal};
use std::alloc::{AllocError, Global};

// The options of one kind of block, including options whose values aren't read.
pub(crate) trait Unread<'a>: PcapNgOption<'a> {
    // Returns an option that has only its bytes.
    fn unread(option: UnknownOption<'a>) -> Self
        ensures same { Self.entry result ≡ unknown_entry option.entry }
        ensures borrowed { UnknownIsBorrowed option.entry → Self.is_borrowed result };
}

// An option, and the flaw of its value if it has one.
#[derive(Drop)]
pub(crate) struct OptionAsIs<O> {
    pub(crate) option: O,
    pub(crate) flaw: Option<Flaw>,
}

// Options read leniently, their flaws, and what is left after them.
#[derive(Drop)]
pub(crate) struct ListAsIs<'a, O> {
    pub(crate) options: Vec<O>,
    pub(crate) flaws: Vec<Flaw>,
    pub(crate) left: &'a [u8],
}

// Returns the fault of a value, by the refusal of a reading that needs no memory.
fn broken_by(refusal: Refusal) -> Broken
    ensures { (read : Result Value Fault) → Denies ⊥ (λ fault. read ≡ Err fault) refusal → read ≡ Err (fault_of result) }
{
    match refusal {
        Refusal::Invalid(rule) => Broken::Rule(rule),
        Refusal::Utf8(_e) => Broken::NotUtf8,
        Refusal::Io | Refusal::Memory(_) => Broken::TooShort,
    }
}

// Reads the option with this code and these bytes leniently.
fn judge<'a, O: Unread<'a>, B: ByteOrder>(code: u16, len: u16, value: &'a [u8]) -> OptionAsIs<O>
    requires { len ≡ length value.now }
    ensures judged { judged_of O.entry result ≡ judged code value.now (value_of B.number_of (shape_at O.kind code) value.now) }
    ensures borrowed { O.is_borrowed result.option }
{
    match O::from_value::<B>(code, len, value) {
        Ok(option) => OptionAsIs { option, flaw: None },
        Err(refusal) => OptionAsIs {
            option: O::unread(UnknownOption::new(code, len, value)),
            flaw: Some(Flaw {
                code: Some(code),
                broken: broken_by(refusal),
            }),
        },
    }
}

// Reads the option at the front of a slice leniently, and returns what follows it and the option, or None at the mark that ends
// a list. Returns the broken rule if there is no option.
pub(crate) fn option_as_is<'a, O: Unread<'a>, B: ByteOrder>(
    slice: &'a [u8],
) -> Result<(&'a [u8], Option<OptionAsIs<O>>), Rule>
    ensures tells { MatchResult result
        (λ x. MatchOption x.1 (EndMark B.number_of slice.now x.0.now) (λ o. JudgedText B.number_of O.kind (judged_of O.entry o) slice.now x.0.now))
        (λ rule. OptionFault B.number_of no_kind slice.now (Invalid rule)) }
    ensures borrowed { IfOk result (λ x. IfSome x.1 (λ o. O.is_borrowed o.option)) }
{
    if slice.len() < 4 {
        return Err(Rule::OptionTooShort);
    }
    let (code, rest) = split_u16::<B>(slice);
    let (len, rest) = split_u16::<B>(rest);
    if code == 0 {
        return Ok((rest, None));
    }
    let Some((value, rest)) = split_padded(rest, len as usize) else {
        return Err(Rule::OptionCut);
    };
    Ok((rest, Some(judge::<O, B>(code, len, value))))
}

// Appends a flaw to the others, if there is one.
pub(crate) fn note(flaws: &mut Vec<Flaw>, flaw: Option<Flaw>) -> Result<(), AllocError>
    ensures items { OnOk result (map said_of flaws.new.items ≡ map said_of flaws.old.items ++ flaws_or_none flaw) }
    ensures memory { IfErr result (λ _. flaws_or_none flaw ≢ []) }
{
    if let Some(flaw) = flaw {
        flaws.push(flaw)?;
    }
    Ok(())
}

// Appends an option to the others, and its flaw to theirs.
fn keep<O: Drop>(
    options: &mut Vec<O>,
    flaws: &mut Vec<Flaw>,
    read: OptionAsIs<O>,
) -> Result<(), AllocError>
    ensures options { OnOk result (options.new.items ≡ options.old.items ++ read.option ∷ []) }
    ensures flaws { OnOk result (map said_of flaws.new.items ≡ map said_of flaws.old.items ++ flaws_or_none read.flaw) }
{
    let OptionAsIs { option, flaw } = read;
    options.push(option)?;
    note(flaws, flaw)?;
    Ok(())
}

// Reads the options at the front of a slice leniently: up to the mark, to the end of the slice, or to where no option can be
// found.
pub(crate) fn list_as_is<'a, O: Unread<'a> + Drop, B: ByteOrder>(
    alloc: Global,
    slice: &'a [u8],
) -> Result<ListAsIs<'a, O>, AllocError>
    ensures read { IfOk result (ListsAsIs B.number_of O.kind O.entry slice.now) }
    ensures memory { IfErr result (λ _. OptionsGrow B.number_of O.kind slice.now) }
    ensures borrowed { IfOk result (λ x. All O.is_borrowed x.options.items) }
{
    let mut options = Vec::new(alloc);
    let mut flaws = Vec::new(alloc);
    let mut left = slice;
    while !left.is_empty() {
        let (after, option) = match option_as_is::<O, B>(left) {
            Ok(read) => read,
            Err(rule) => {
                flaws.push(Flaw::of_body(rule))?;
                return Ok(ListAsIs {
                    options,
                    flaws,
                    left,
                });
            }
        };
        left = after;
        match option {
            Some(read) => keep(&mut options, &mut flaws, read)?,
            None => {
                return Ok(ListAsIs {
                    options,
                    flaws,
                    left,
                });
            }
        }
    }
    Ok(ListAsIs {
        options,
        flaws,
        left,
    })
}
