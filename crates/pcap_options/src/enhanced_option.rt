//! The options of an enhanced packet.

ghost use Rattle.std.specs.Prelude.{map, All, IsOk, IfOk, ◌≡◌, IfErr};
ghost use Rattle.pcap_core.specs.Answer.{TellsWhere};
ghost use Rattle.pcap_options.specs.Options.{may_end_with_body, ListSays, OptionsMayGrow};
ghost use Rattle.pcap_options.specs.EnhancedOption.{enhanced_packet, enhanced_entry, EnhancedOptionIsBorrowed, EnhancedOptionIsOwned};
ghost use Rattle.pcap_core.specs.Errors.{IsMemory};

use crate::enhanced_options;
use crate::held::{Held, HeldValue, HoldsEntry};
use crate::kinds::{held_option, kept_option, read_option};
use crate::options::{
    CustomBinaryOption, CustomUtf8Option, ListedOption, PcapNgOption, UnknownOption,
    options_from_slice,
};
use crate::owned::IntoStatic;
use crate::refusal::Refusal;
use byteorder::ByteOrder;
use pcap_core::{CowBytes, ResultParsing};
use std::alloc::{AllocError, Global};
use std::borrow::CowStr;

/// An option of an enhanced packet ('Enhanced Packet Block').
#[derive(Clone, Debug, Drop)]
pub enum EnhancedPacketOption<'a> {
    /// A comment on the packet (opt_comment, code 1).
    Comment(CowStr<'a>),
    /// Flags of the packet from the link layer (epb_flags, code 2). Bit 0 is the lowest. Bits 0 and 1 are the direction
    /// (1 in, 2 out). Bits 2 to 4 are how it was received (1 unicast, 2 multicast, 3 broadcast, 4 promiscuous). Bits 5
    /// to 8 are the length of its frame check sequence in bytes. In these three, 0 means unknown. Bits 16 to 31 are
    /// errors of the link layer.
    Flags(u32),
    /// A hash of the packet (epb_hash, code 3). Its first byte names the algorithm: 0 for the 2s complement, 1 for XOR,
    /// 2 for CRC32, 3 for MD5, 4 for SHA-1.
    Hash(CowBytes<'a>),
    /// The number of packets that the interface lost between this packet and the one before it (epb_dropcount, code 4).
    DropCount(u64),
    /// A custom option with bytes (code 2989 or 19373).
    CustomBinary(CustomBinaryOption<'a>),
    /// A custom option with a string (code 2988 or 19372).
    CustomUtf8(CustomUtf8Option<'a>),
    /// An option with another code.
    Unknown(UnknownOption<'a>),
}

impl<'a> EnhancedPacketOption<'a> {
    /// Reads the list of options at the front of a slice, and returns the bytes after it and the options. The list ends
    /// at its end-of-options option or with the slice.
    ///
    /// The first malformed option decides the error: `Utf8Error` for a string that isn't UTF-8, `IoError` for a custom
    /// value under 4 bytes, and `InvalidField` for any other broken rule. Returns `OutOfMemory` if an allocation fails,
    /// which can happen only if the list has an option.
    pub fn from_slice<B: ByteOrder>(
        alloc: Global,
        slice: &'a [u8],
    ) -> ResultParsing<(&'a [u8], Vec<Self>)>
        ensures tells { TellsWhere (OptionsMayGrow B.number_of enhanced_packet slice.now) (ListSays may_end_with_body B.number_of enhanced_packet slice.now)
            (λ options. map enhanced_entry options.items) result }
        ensures borrowed { IfOk result (λ x. All EnhancedOptionIsBorrowed x.1.items) }
    {
        Ok(Self::list_from_slice::<B>(alloc, slice)?)
    }

    /// Returns the same option with its own bytes and strings: it copies borrowed ones and keeps owned ones.
    ///
    /// Returns `OutOfMemory` if an allocation fails; the value is then dropped.
    pub fn into_owned(self, alloc: Global) -> ResultParsing<EnhancedPacketOption<'static>>
        ensures same { IfOk result (λ kept. enhanced_entry kept ≡ enhanced_entry self.entry) }
        ensures owned { IfOk result EnhancedOptionIsOwned }
        ensures memory { IfErr result IsMemory }
        ensures kept { EnhancedOptionIsOwned self.entry → IsOk result }
    {
        Ok(self.into_static(alloc)?)
    }
}

impl HoldsEntry for EnhancedPacketOption<'_> {
    ghost entry = { enhanced_entry };

    fn held(&self) -> Held<'_> {
        enhanced_options!(held_option self)
    }
}

impl<'a> PcapNgOption<'a> for EnhancedPacketOption<'a> {
    ghost kind = { enhanced_packet };

    ghost is_borrowed = { EnhancedOptionIsBorrowed };

    #[inline(always)]
    fn from_value<B: ByteOrder>(code: u16, len: u16, value: &'a [u8]) -> Result<Self, Refusal> {
        enhanced_options!(read_option B code len value)
    }
}

impl<'a> ListedOption<'a> for EnhancedPacketOption<'a> {
    #[inline(always)]
    fn list_from_slice<B: ByteOrder>(
        alloc: Global,
        slice: &'a [u8],
    ) -> Result<(&'a [u8], Vec<Self>), Refusal> {
        options_from_slice::<Self, B>(alloc, slice)
    }
}

impl<'a> IntoStatic for EnhancedPacketOption<'a> {
    type Owned = EnhancedPacketOption<'static>;

    ghost is_same = { λ value kept. enhanced_entry kept ≡ enhanced_entry value };

    ghost is_owned = { EnhancedOptionIsOwned };

    ghost needs_no_memory = { EnhancedOptionIsOwned };

    fn into_static(self, alloc: Global) -> Result<EnhancedPacketOption<'static>, AllocError> {
        enhanced_options!(kept_option self alloc)
    }
}
