//! Section headers read leniently.

ghost use Rattle.std.specs.Prelude.{◌≡◌, ◌≤◌, length, map, IfOk, IfErr};
ghost use Rattle.pcap_core.specs.Answer.{Refuses};
ghost use Rattle.pcap_blocks.specs.SectionHeader.{section_of, SectionIsBorrowed};
ghost use Rattle.pcap_tolerant_blocks.specs.Flaws.{said_of};
ghost use Rattle.pcap_tolerant_blocks.specs.SectionAsIs.{AfterMagic, SectionText, NoSection, VersionGrows, SectionGrows};

use crate::flaws::Flaw;
use crate::list::{Unread, list_as_is};
use byteorder::{BigEndian, ByteOrder, LittleEndian};
use pcap_blocks::{SectionHeaderBlock, SectionHeaderOption, UnknownOption};
use pcap_core::fields::{split_u16, split_u32, split_u64};
use pcap_core::rules::Rule;
use pcap_core::{PcapError, ResultParsing};
use std::alloc::{AllocError, Global};

/// A section read leniently, with its flaws.
#[derive(Debug, Drop)]
pub struct SectionAsIs<'a> {
    /// The section. An option whose value breaks its rule becomes an option of an unknown code, with its bytes.
    pub section: SectionHeaderBlock<'a>,
    /// The flaws in the order of the text. Strict reading refuses the section for the first of them.
    pub flaws: Vec<Flaw>,
}

impl<'a> SectionAsIs<'a> {
    /// Reads a block's body as a section leniently, and returns what follows its options and the section.
    ///
    /// The options end at their mark, at the end of the slice, or where no next option can be found. Strings and bytes are
    /// borrowed from the slice.
    ///
    /// Returns `InvalidField` for fewer than 16 bytes, and if the magic number is neither of the two, so that the byte order is
    /// unknown. Returns `OutOfMemory` if a list can't grow. This can happen only if there is a flaw or an option.
    pub fn from_slice(alloc: Global, slice: &'a [u8]) -> ResultParsing<(&'a [u8], Self)>
        ensures read { IfOk result (λ x. SectionText (section_of x.1.section) (map said_of x.1.flaws.items) slice.now x.0.now) }
        ensures refused { IfErr result (Refuses (SectionGrows slice.now) (λ _. ⊥) (NoSection slice.now)) }
        ensures borrowed { IfOk result (λ x. SectionIsBorrowed x.1.section) }
    {
        if slice.len() < 16 {
            return Err(PcapError::from(Rule::SectionTooShort));
        }
        let (magic, rest) = split_u32::<BigEndian>(slice);
        match magic {
            0x1A2B3C4D => Ok(behind_magic::<BigEndian>(alloc, magic, rest)?),
            0x4D3C2B1A => Ok(behind_magic::<LittleEndian>(alloc, magic, rest)?),
            _ => Err(PcapError::from(Rule::SectionMagic)),
        }
    }
}

// Reads what follows the magic number of a section leniently, and returns what follows its options and the section.
fn behind_magic<'a, B: ByteOrder>(
    alloc: Global,
    magic: u32,
    slice: &'a [u8],
) -> Result<(&'a [u8], SectionAsIs<'a>), AllocError>
    requires { 12 ≤ length slice.now }
    ensures magic { IfOk result (λ x. x.1.section.magic ≡ magic) }
    ensures read { IfOk result (λ x. AfterMagic B.number_of (section_of x.1.section) (map said_of x.1.flaws.items) slice.now x.0.now) }
    ensures memory { IfErr result (λ _. VersionGrows B.number_of slice.now) }
    ensures borrowed { IfOk result (λ x. SectionIsBorrowed x.1.section) }
{
    let (major_version, rest) = split_u16::<B>(slice);
    let (minor_version, rest) = split_u16::<B>(rest);
    let (section_length, rest) = split_u64::<B>(rest);
    let list = list_as_is::<SectionHeaderOption, B>(alloc, rest)?;
    let section = SectionHeaderBlock {
        magic,
        major_version,
        minor_version,
        section_length: section_length.cast_signed(),
        options: list.options,
    };
    Ok((
        list.left,
        SectionAsIs {
            section,
            flaws: list.flaws,
        },
    ))
}

impl<'a> Unread<'a> for SectionHeaderOption<'a> {
    fn unread(option: UnknownOption<'a>) -> Self {
        Self::Unknown(option)
    }
}
