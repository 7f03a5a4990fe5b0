//! The options of a name resolution block.

ghost use Rattle.std.specs.Prelude.{IsOk, IfOk, ◌≡◌, IfErr};
ghost use Rattle.pcap_options.specs.NameOption.{name_resolution, name_entry, NameOptionIsBorrowed, NameOptionIsOwned};
ghost use Rattle.pcap_core.specs.Errors.{IsMemory};

use crate::held::{Held, HeldValue, HoldsEntry};
use crate::kinds::{held_option, kept_option, read_option};
use crate::name_options;
use crate::options::{CustomBinaryOption, CustomUtf8Option, PcapNgOption, UnknownOption};
use crate::owned::IntoStatic;
use crate::refusal::Refusal;
use byteorder::ByteOrder;
use pcap_core::{CowBytes, ResultParsing};
use std::alloc::{AllocError, Global};
use std::borrow::CowStr;

/// An option of a name resolution block ('Name Resolution Block').
#[derive(Clone, Debug, Drop)]
pub enum NameResolutionOption<'a> {
    /// A comment on the names (opt_comment, code 1).
    Comment(CowStr<'a>),
    /// The name of the server that resolved the names (ns_dnsname, code 2).
    NsDnsName(CowStr<'a>),
    /// The server's IPv4 address, 4 bytes (ns_dnsIP4addr, code 3).
    NsDnsIpv4Addr(CowBytes<'a>),
    /// The server's IPv6 address, 16 bytes (ns_dnsIP6addr, code 4).
    NsDnsIpv6Addr(CowBytes<'a>),
    /// A custom option with bytes (code 2989 or 19373).
    CustomBinary(CustomBinaryOption<'a>),
    /// A custom option with a string (code 2988 or 19372).
    CustomUtf8(CustomUtf8Option<'a>),
    /// An option with another code.
    Unknown(UnknownOption<'a>),
}

impl HoldsEntry for NameResolutionOption<'_> {
    ghost entry = { name_entry };

    fn held(&self) -> Held<'_> {
        name_options!(held_option self)
    }
}

impl<'a> PcapNgOption<'a> for NameResolutionOption<'a> {
    ghost kind = { name_resolution };

    ghost is_borrowed = { NameOptionIsBorrowed };

    #[inline(always)]
    fn from_value<B: ByteOrder>(code: u16, len: u16, value: &'a [u8]) -> Result<Self, Refusal> {
        name_options!(read_option B code len value)
    }
}

impl<'a> NameResolutionOption<'a> {
    /// Returns the same option with its own bytes and strings: it copies borrowed ones and keeps owned ones.
    ///
    /// Returns `OutOfMemory` if an allocation fails; the value is then dropped.
    pub fn into_owned(self, alloc: Global) -> ResultParsing<NameResolutionOption<'static>>
        ensures same { IfOk result (λ kept. name_entry kept ≡ name_entry self.entry) }
        ensures owned { IfOk result NameOptionIsOwned }
        ensures memory { IfErr result IsMemory }
        ensures kept { NameOptionIsOwned self.entry → IsOk result }
    {
        Ok(self.into_static(alloc)?)
    }
}

impl<'a> IntoStatic for NameResolutionOption<'a> {
    type Owned = NameResolutionOption<'static>;

    ghost is_same = { λ value kept. name_entry kept ≡ name_entry value };

    ghost is_owned = { NameOptionIsOwned };

    ghost needs_no_memory = { NameOptionIsOwned };

    fn into_static(self, alloc: Global) -> Result<NameResolutionOption<'static>, AllocError> {
        name_options!(kept_option self alloc)
    }
}
