//! Section headers.

ghost use Rattle.std.specs.Prelude.{◌≡◌, ◌≤◌, ◌↔◌, length, IsOk, IfOk, IsTrue, IsSome, Some, IfErr};
ghost use Rattle.pcap_core.specs.Answer.{TellsWhere};
ghost use Rattle.pcap_options.specs.Refusal.{FindsWhere};
ghost use Rattle.pcap_blocks.specs.SectionHeader.{magic_order, SectionSays, AfterMagicSays, section_of, SectionIsBorrowed, SectionIsOwned};
ghost use Rattle.pcap_blocks.specs.SectionHeader.{SectionNeedsNoMemory, SectionMayGrow, AfterMagicMayGrow};
ghost use Rattle.pcap_core.specs.Errors.{IsMemory};

use byteorder::{BigEndian, ByteOrder, LittleEndian};
use pcap_core::fields::{split_u16, split_u32, split_u64};
use pcap_core::rules::Rule;
use pcap_core::{Endianness, ResultParsing};
use pcap_options::{IntoStatic, Refusal, SectionHeaderOption, kept_fields, options_from_slice};
use std::alloc::{AllocError, Global};

/// The body of a section header ('Section Header Block'), which applies to all blocks up to the next section header.
#[derive(Clone, Debug, Drop)]
pub struct SectionHeaderBlock<'a> {
    /// The magic number, read high byte first: 0x1A2B3C4D in a big-endian section, 0x4D3C2B1A in a little-endian one.
    pub magic: u32,
    /// The major version number, normally 1.
    pub major_version: u16,
    /// The minor version number, normally 0.
    pub minor_version: u16,
    /// The length of the section in bytes without this block, or -1 if it isn't known. No call uses it to skip bytes.
    pub section_length: i64,
    /// The section's options.
    pub options: Vec<SectionHeaderOption<'a>>,
}

impl<'a> SectionHeaderBlock<'a> {
    /// Reads a section from the body of a block, and returns the bytes after its options and the section. The options
    /// end at the end-of-options option or with the slice. Strings and bytes are borrowed from the slice.
    ///
    /// The first broken rule decides the error. `InvalidField` for fewer than 16 bytes, and for an unknown magic
    /// number. Then the first malformed option: `Utf8Error` for a string that isn't UTF-8, `IoError` for a custom value
    /// under 4 bytes, and `InvalidField` for another broken rule.
    ///
    /// Returns `OutOfMemory` if an allocation fails, which can happen only if there is an option.
    pub fn from_slice(alloc: Global, slice: &'a [u8]) -> ResultParsing<(&'a [u8], Self)>
        ensures tells { TellsWhere (SectionMayGrow slice.now) (SectionSays slice.now) section_of result }
        ensures borrowed { IfOk result (λ x. SectionIsBorrowed x.1) }
    {
        Ok(SectionHeaderBlock::read(alloc, slice)?)
    }

    pub(crate) fn read(alloc: Global, slice: &'a [u8]) -> Result<(&'a [u8], Self), Refusal>
        ensures tells { FindsWhere (SectionMayGrow slice.now) (SectionSays slice.now) section_of result }
        ensures borrowed { IfOk result (λ x. SectionIsBorrowed x.1) }
    {
        if slice.len() < 16 {
            return Err(Refusal::Invalid(Rule::SectionTooShort));
        }
        let (magic, rest) = split_u32::<BigEndian>(slice);
        match magic {
            0x1A2B3C4D => SectionHeaderBlock::read_after::<BigEndian>(alloc, magic, rest),
            0x4D3C2B1A => SectionHeaderBlock::read_after::<LittleEndian>(alloc, magic, rest),
            _ => Err(Refusal::Invalid(Rule::SectionMagic)),
        }
    }

    // Reads the part of a section after its magic number.
    fn read_after<B: ByteOrder>(
        alloc: Global,
        magic: u32,
        slice: &'a [u8],
    ) -> Result<(&'a [u8], Self), Refusal>
        requires { 12 ≤ length slice.now }
        ensures tells { FindsWhere (AfterMagicMayGrow B.number_of slice.now) (AfterMagicSays B.number_of magic slice.now) section_of result }
        ensures borrowed { IfOk result (λ x. SectionIsBorrowed x.1) }
    {
        let (major_version, rest) = split_u16::<B>(slice);
        let (minor_version, rest) = split_u16::<B>(rest);
        let (section_length, rest) = split_u64::<B>(rest);
        let (rest, options) = options_from_slice::<SectionHeaderOption, B>(alloc, rest)?;
        let block = SectionHeaderBlock {
            magic,
            major_version,
            minor_version,
            section_length: section_length.cast_signed(),
            options,
        };
        Ok((rest, block))
    }

    /// Returns whether the magic number names a byte order.
    #[tactic(auto, unfolding(crate::specs::SectionHeader::magic_order))]
    pub fn has_valid_magic(&self) -> bool
        ensures { IsTrue result ↔ IsSome (magic_order self.now.magic) }
    {
        matches!(self.magic, 0x1A2B3C4D | 0x4D3C2B1A)
    }

    /// Returns the byte order of the section's numbers. The magic number must name one: see `has_valid_magic`.
    #[tactic(auto, unfolding(crate::specs::SectionHeader::magic_order))]
    pub fn endianness(&self) -> Endianness
        requires { IsSome (magic_order self.now.magic) }
        ensures { magic_order self.now.magic ≡ Some result }
    {
        if self.magic == 0x1A2B3C4D {
            Endianness::Big
        } else {
            Endianness::Little
        }
    }

    /// Returns the same section with its own bytes and strings: it copies borrowed ones and keeps owned ones.
    ///
    /// Returns `OutOfMemory` if an allocation fails; the value is then dropped.
    pub fn into_owned(self, alloc: Global) -> ResultParsing<SectionHeaderBlock<'static>>
        ensures same { IfOk result (λ kept. section_of kept ≡ section_of self.entry) }
        ensures owned { IfOk result SectionIsOwned }
        ensures memory { IfErr result IsMemory }
        ensures kept { SectionNeedsNoMemory self.entry → IsOk result }
    {
        Ok(self.into_static(alloc)?)
    }
}

impl<'a> IntoStatic for SectionHeaderBlock<'a> {
    type Owned = SectionHeaderBlock<'static>;

    ghost is_same = { λ value kept. section_of kept ≡ section_of value };

    ghost is_owned = { SectionIsOwned };

    ghost needs_no_memory = { SectionNeedsNoMemory };

    #[tactic(auto, using(pcap_core::proofs::Kept::map_kept))]
    fn into_static(self, alloc: Global) -> Result<SectionHeaderBlock<'static>, AllocError> {
        kept_fields!(self alloc SectionHeaderBlock { magic major_version minor_version section_length } each { options })
    }
}
