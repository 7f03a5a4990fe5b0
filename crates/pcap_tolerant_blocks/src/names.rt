//! Name resolution blocks read leniently.

ghost use Rattle.std.specs.Prelude.{◌≡◌, ◌≢◌, [], ◌++◌, map, All, IfOk, IfErr, OnOk};
ghost use Rattle.pcap_options.specs.Record.{RecordIsBorrowed};
ghost use Rattle.pcap_blocks.specs.NameResolution.{names_of, ResolutionIsBorrowed};
ghost use Rattle.pcap_tolerant_blocks.specs.Flaws.{said_of};
ghost use Rattle.pcap_tolerant_blocks.specs.NamesAsIs.{NamesText, NamesGrow, RecordsRead, RecordsGrow, flaws_said};

use crate::flaws::Flaw;
use crate::list::{Unread, list_as_is, note};
use crate::records::{RecordAsIs, record_as_is};
use byteorder::ByteOrder;
use pcap_blocks::{NameResolutionBlock, NameResolutionOption, Record, UnknownOption};
use std::alloc::{AllocError, Global};

/// Names of addresses read leniently, with their flaws.
#[derive(Debug, Drop)]
pub struct NamesAsIs<'a> {
    /// The names. A record whose value breaks its rule becomes a record of an unknown type, with its bytes. Such an option
    /// becomes an option of an unknown code.
    pub names: NameResolutionBlock<'a>,
    /// The flaws in the order of the text. Strict reading refuses the names for the first of them. The flaw of a record has no
    /// code.
    pub flaws: Vec<Flaw>,
}

// Records read leniently, their flaws, what is left after them, and whether the record that ends them was found.
#[derive(Drop)]
struct RecordsAsIs<'a> {
    records: Vec<Record<'a>>,
    flaws: Vec<Flaw>,
    left: &'a [u8],
    has_end: bool,
}

impl<'a> NamesAsIs<'a> {
    /// Reads a block's body as names of addresses leniently, and returns what follows their options and the names.
    ///
    /// The records end at one of the end's type, even if this record has a value, and the options follow it. The options end at
    /// their mark, at the end of the slice, or where no next option can be found. If no next record can be found, there are no
    /// options, and everything from there on is left. Strings and bytes are borrowed from the slice.
    ///
    /// Returns `AllocError` if a list can't grow. This can happen only if there is a flaw, a record or an option.
    pub fn from_slice<B: ByteOrder>(
        alloc: Global,
        slice: &'a [u8],
    ) -> Result<(&'a [u8], Self), AllocError>
        ensures read { IfOk result (λ x. NamesText B.number_of (names_of x.1.names) (flaws_said x.1) slice.now x.0.now) }
        ensures memory { IfErr result (λ _. NamesGrow B.number_of slice.now) }
        ensures borrowed { IfOk result (λ x. ResolutionIsBorrowed x.1.names) }
    {
        let read = records_as_is::<B>(alloc, slice)?;
        let RecordsAsIs {
            records,
            mut flaws,
            left,
            has_end,
        } = read;
        if !has_end {
            let names = NameResolutionBlock {
                records,
                options: Vec::new(alloc),
            };
            return Ok((left, NamesAsIs { names, flaws }));
        }
        let list = list_as_is::<NameResolutionOption, B>(alloc, left)?;
        note_all(&mut flaws, list.flaws)?;
        let names = NameResolutionBlock {
            records,
            options: list.options,
        };
        Ok((list.left, NamesAsIs { names, flaws }))
    }
}

// Appends flaws to others.
fn note_all(flaws: &mut Vec<Flaw>, mut more: Vec<Flaw>) -> Result<(), AllocError>
    ensures items { OnOk result (map said_of flaws.new.items ≡ map said_of flaws.old.items ++ map said_of more.items) }
    ensures memory { IfErr result (λ _. map said_of more.items ≢ []) }
{
    if more.is_empty() {
        return Ok(());
    }
    flaws.append(&mut more)?;
    Ok(())
}

// Reads the records at the front of a slice leniently: up to their end, or to where no next record can be found.
fn records_as_is<'a, B: ByteOrder>(
    alloc: Global,
    slice: &'a [u8],
) -> Result<RecordsAsIs<'a>, AllocError>
    ensures read { IfOk result (RecordsRead B.number_of slice.now) }
    ensures memory { IfErr result (λ _. RecordsGrow B.number_of slice.now) }
    ensures borrowed { IfOk result (λ x. All RecordIsBorrowed x.records.items) }
{
    let mut records = Vec::new(alloc);
    let mut flaws = Vec::new(alloc);
    let mut left = slice;
    loop {
        match record_as_is::<B>(alloc, left)? {
            RecordAsIs::Kept(record, flaw, after) => {
                records.push(record)?;
                note(&mut flaws, flaw)?;
                left = after;
            }
            RecordAsIs::End(flaw, after) => {
                note(&mut flaws, flaw)?;
                return Ok(RecordsAsIs {
                    records,
                    flaws,
                    left: after,
                    has_end: true,
                });
            }
            RecordAsIs::Cut(flaw) => {
                flaws.push(flaw)?;
                return Ok(RecordsAsIs {
                    records,
                    flaws,
                    left,
                    has_end: false,
                });
            }
        }
    }
}

impl<'a> Unread<'a> for NameResolutionOption<'a> {
    fn unread(option: UnknownOption<'a>) -> Self {
        Self::Unknown(option)
    }
}
