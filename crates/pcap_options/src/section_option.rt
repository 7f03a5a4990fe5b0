//! The options of a section header.

ghost use Rattle.std.specs.Prelude.{◌≡◌, IsOk, IfOk, IfErr};
ghost use Rattle.pcap_options.specs.SectionOption.{section_header, section_entry, SectionOptionIsBorrowed, SectionOptionIsOwned};
ghost use Rattle.pcap_core.specs.Errors.{IsMemory};

use crate::held::{Held, HeldValue, HoldsEntry};
use crate::kinds::{held_option, kept_option, read_option};
use crate::options::{CustomBinaryOption, CustomUtf8Option, PcapNgOption, UnknownOption};
use crate::owned::IntoStatic;
use crate::refusal::Refusal;
use crate::section_options;
use byteorder::ByteOrder;
use pcap_core::ResultParsing;
use std::alloc::{AllocError, Global};
use std::borrow::CowStr;

/// An option of a section header ('Section Header Block').
#[derive(Clone, Debug, Drop)]
pub enum SectionHeaderOption<'a> {
    /// A comment on the section (opt_comment, code 1).
    Comment(CowStr<'a>),
    /// The hardware on which the section was made (shb_hardware, code 2).
    Hardware(CowStr<'a>),
    /// The operating system on which the section was made (shb_os, code 3).
    OS(CowStr<'a>),
    /// The application that made the section (shb_userappl, code 4).
    UserApplication(CowStr<'a>),
    /// A custom option with bytes (code 2989 or 19373).
    CustomBinary(CustomBinaryOption<'a>),
    /// A custom option with a string (code 2988 or 19372).
    CustomUtf8(CustomUtf8Option<'a>),
    /// An option with another code.
    Unknown(UnknownOption<'a>),
}

impl HoldsEntry for SectionHeaderOption<'_> {
    ghost entry = { section_entry };

    fn held(&self) -> Held<'_> {
        section_options!(held_option self)
    }
}

impl<'a> PcapNgOption<'a> for SectionHeaderOption<'a> {
    ghost kind = { section_header };

    ghost is_borrowed = { SectionOptionIsBorrowed };

    #[inline(always)]
    fn from_value<B: ByteOrder>(code: u16, len: u16, value: &'a [u8]) -> Result<Self, Refusal> {
        section_options!(read_option B code len value)
    }
}

impl<'a> SectionHeaderOption<'a> {
    /// Returns the same option with its own bytes and strings: it copies borrowed ones and keeps owned ones.
    ///
    /// Returns `OutOfMemory` if an allocation fails; the value is then dropped.
    pub fn into_owned(self, alloc: Global) -> ResultParsing<SectionHeaderOption<'static>>
        ensures same { IfOk result (λ kept. section_entry kept ≡ section_entry self.entry) }
        ensures owned { IfOk result SectionOptionIsOwned }
        ensures memory { IfErr result IsMemory }
        ensures kept { SectionOptionIsOwned self.entry → IsOk result }
    {
        Ok(self.into_static(alloc)?)
    }
}

impl<'a> IntoStatic for SectionHeaderOption<'a> {
    type Owned = SectionHeaderOption<'static>;

    ghost is_same = { λ value kept. section_entry kept ≡ section_entry value };

    ghost is_owned = { SectionOptionIsOwned };

    ghost needs_no_memory = { SectionOptionIsOwned };

    fn into_static(self, alloc: Global) -> Result<SectionHeaderOption<'static>, AllocError> {
        section_options!(kept_option self alloc)
    }
}
