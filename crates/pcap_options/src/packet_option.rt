//! The options of a packet block.

ghost use Rattle.std.specs.Prelude.{map, All, IsOk, IfOk, ◌≡◌, IfErr};
ghost use Rattle.pcap_core.specs.Answer.{TellsWhere};
ghost use Rattle.pcap_options.specs.Options.{may_end_with_body, ListSays, OptionsMayGrow};
ghost use Rattle.pcap_options.specs.PacketOption.{packet_kind, packet_entry, PacketOptionIsBorrowed, PacketOptionIsOwned};
ghost use Rattle.pcap_core.specs.Errors.{IsMemory};

use crate::held::{Held, HeldValue, HoldsEntry};
use crate::kinds::{held_option, kept_option, read_option};
use crate::options::{
    CustomBinaryOption, CustomUtf8Option, ListedOption, PcapNgOption, UnknownOption,
    options_from_slice,
};
use crate::owned::IntoStatic;
use crate::packet_options;
use crate::refusal::Refusal;
use byteorder::ByteOrder;
use pcap_core::{CowBytes, ResultParsing};
use std::alloc::{AllocError, Global};
use std::borrow::CowStr;

/// An option of a packet block ('Packet Block').
#[derive(Clone, Debug, Drop)]
pub enum PacketOption<'a> {
    /// A comment on the packet (opt_comment, code 1).
    Comment(CowStr<'a>),
    /// Flags of the packet from the link layer (pack_flags, code 2). Bit 0 is the lowest. Bits 0 and 1 are the direction
    /// (1 in, 2 out). Bits 2 to 4 are how it was received (1 unicast, 2 multicast, 3 broadcast, 4 promiscuous). Bits 5
    /// to 8 are the length of its frame check sequence in bytes. In these three, 0 means unknown. Bits 16 to 31 are
    /// errors of the link layer.
    Flags(u32),
    /// A hash of the packet (pack_hash, code 3). Its first byte names the algorithm: 0 for the 2s complement, 1 for
    /// XOR, 2 for CRC32, 3 for MD5, 4 for SHA-1.
    Hash(CowBytes<'a>),
    /// A custom option with bytes (code 2989 or 19373).
    CustomBinary(CustomBinaryOption<'a>),
    /// A custom option with a string (code 2988 or 19372).
    CustomUtf8(CustomUtf8Option<'a>),
    /// An option with another code.
    Unknown(UnknownOption<'a>),
}

impl<'a> PacketOption<'a> {
    /// Reads the list of options at the front of a slice, and returns the bytes after it and the options. The list ends
    /// at its end-of-options option or with the slice.
    ///
    /// The first malformed option decides the error: `Utf8Error` for a string that isn't UTF-8, `IoError` for a custom
    /// value under 4 bytes, and `InvalidField` for any other broken rule. Returns `OutOfMemory` if an allocation fails,
    /// which can happen only if the list has an option.
    pub fn from_slice<B: ByteOrder>(
        alloc: Global,
        slice: &'a [u8],
    ) -> ResultParsing<(&'a [u8], Vec<Self>)>
        ensures tells { TellsWhere (OptionsMayGrow B.number_of packet_kind slice.now) (ListSays may_end_with_body B.number_of packet_kind slice.now)
            (λ options. map packet_entry options.items) result }
        ensures borrowed { IfOk result (λ x. All PacketOptionIsBorrowed x.1.items) }
    {
        Ok(Self::list_from_slice::<B>(alloc, slice)?)
    }

    /// Returns the same option with its own bytes and strings: it copies borrowed ones and keeps owned ones.
    ///
    /// Returns `OutOfMemory` if an allocation fails; the value is then dropped.
    pub fn into_owned(self, alloc: Global) -> ResultParsing<PacketOption<'static>>
        ensures same { IfOk result (λ kept. packet_entry kept ≡ packet_entry self.entry) }
        ensures owned { IfOk result PacketOptionIsOwned }
        ensures memory { IfErr result IsMemory }
        ensures kept { PacketOptionIsOwned self.entry → IsOk result }
    {
        Ok(self.into_static(alloc)?)
    }
}

impl HoldsEntry for PacketOption<'_> {
    ghost entry = { packet_entry };

    fn held(&self) -> Held<'_> {
        packet_options!(held_option self)
    }
}

impl<'a> PcapNgOption<'a> for PacketOption<'a> {
    ghost kind = { packet_kind };

    ghost is_borrowed = { PacketOptionIsBorrowed };

    #[inline(always)]
    fn from_value<B: ByteOrder>(code: u16, len: u16, value: &'a [u8]) -> Result<Self, Refusal> {
        packet_options!(read_option B code len value)
    }
}

impl<'a> ListedOption<'a> for PacketOption<'a> {
    #[inline(always)]
    fn list_from_slice<B: ByteOrder>(
        alloc: Global,
        slice: &'a [u8],
    ) -> Result<(&'a [u8], Vec<Self>), Refusal> {
        options_from_slice::<Self, B>(alloc, slice)
    }
}

impl<'a> IntoStatic for PacketOption<'a> {
    type Owned = PacketOption<'static>;

    ghost is_same = { λ value kept. packet_entry kept ≡ packet_entry value };

    ghost is_owned = { PacketOptionIsOwned };

    ghost needs_no_memory = { PacketOptionIsOwned };

    fn into_static(self, alloc: Global) -> Result<PacketOption<'static>, AllocError> {
        packet_options!(kept_option self alloc)
    }
}
