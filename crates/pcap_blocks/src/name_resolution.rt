//! Name resolution blocks.

ghost use Rattle.std.specs.Prelude.{IsOk, IfOk, ◌≡◌, IfErr};
ghost use Rattle.pcap_core.specs.Answer.{TellsWhere};
ghost use Rattle.pcap_options.specs.Refusal.{FindsWhere};
ghost use Rattle.pcap_blocks.specs.NameResolution.{ResolutionSays, names_of, ResolutionIsBorrowed, ResolutionIsOwned};
ghost use Rattle.pcap_blocks.specs.NameResolution.{ResolutionNeedsNoMemory, ResolutionMayGrow};
ghost use Rattle.pcap_core.specs.Errors.{IsMemory};

use byteorder::ByteOrder;
use pcap_core::ResultParsing;
use pcap_options::{
    IntoStatic, NameResolutionOption, Record, Refusal, kept_fields, options_from_slice,
    records_from_slice,
};
use std::alloc::{AllocError, Global};

/// The body of a name resolution block ('Name Resolution Block'): names of addresses.
#[derive(Clone, Debug, Drop)]
pub struct NameResolutionBlock<'a> {
    /// The addresses and their names, without the end record.
    pub records: Vec<Record<'a>>,
    /// The block's options.
    pub options: Vec<NameResolutionOption<'a>>,
}

impl<'a> NameResolutionBlock<'a> {
    /// Reads the names from the body of a name resolution block, and returns the bytes after its options and the block.
    /// The options end at the end-of-options option or with the slice. Strings and bytes are borrowed from the slice.
    ///
    /// The first malformed record decides the error, as in `Record::from_slice`: so `IoError` if the slice ends before
    /// an end record. Then the first malformed option: `Utf8Error` for a string that isn't UTF-8, `IoError` for a
    /// custom value under 4 bytes, and `InvalidField` for another broken rule.
    ///
    /// Returns `OutOfMemory` if an allocation fails, which can happen only if there is a record other than the end
    /// record, a name or an option.
    pub fn from_slice<B: ByteOrder>(
        alloc: Global,
        slice: &'a [u8],
    ) -> ResultParsing<(&'a [u8], Self)>
        ensures tells { TellsWhere (ResolutionMayGrow B.number_of slice.now) (ResolutionSays B.number_of slice.now) names_of result }
        ensures borrowed { IfOk result (λ x. ResolutionIsBorrowed x.1) }
    {
        Ok(NameResolutionBlock::read::<B>(alloc, slice)?)
    }

    pub(crate) fn read<B: ByteOrder>(
        alloc: Global,
        slice: &'a [u8],
    ) -> Result<(&'a [u8], Self), Refusal>
        ensures tells { FindsWhere (ResolutionMayGrow B.number_of slice.now) (ResolutionSays B.number_of slice.now) names_of result }
        ensures borrowed { IfOk result (λ x. ResolutionIsBorrowed x.1) }
    {
        let (after, records) = records_from_slice::<B>(alloc, slice)?;
        let (rest, options) = options_from_slice::<NameResolutionOption, B>(alloc, after)?;
        Ok((rest, NameResolutionBlock { records, options }))
    }

    /// Returns the same block with its own bytes and strings: it copies borrowed ones and keeps owned ones.
    ///
    /// Returns `OutOfMemory` if an allocation fails; the value is then dropped.
    pub fn into_owned(self, alloc: Global) -> ResultParsing<NameResolutionBlock<'static>>
        ensures same { IfOk result (λ kept. names_of kept ≡ names_of self.entry) }
        ensures owned { IfOk result ResolutionIsOwned }
        ensures memory { IfErr result IsMemory }
        ensures kept { ResolutionNeedsNoMemory self.entry → IsOk result }
    {
        Ok(self.into_static(alloc)?)
    }
}

impl<'a> IntoStatic for NameResolutionBlock<'a> {
    type Owned = NameResolutionBlock<'static>;

    ghost is_same = { λ value kept. names_of kept ≡ names_of value };

    ghost is_owned = { ResolutionIsOwned };

    ghost needs_no_memory = { ResolutionNeedsNoMemory };

    #[tactic(auto, using(pcap_core::proofs::Kept::map_kept))]
    fn into_static(self, alloc: Global) -> Result<NameResolutionBlock<'static>, AllocError> {
        kept_fields!(self alloc NameResolutionBlock {} each { records options })
    }
}
