//! The options of an interface description.

ghost use Rattle.std.specs.Prelude.{◌≡◌, IsOk, IfOk, IfErr};
ghost use Rattle.pcap_options.specs.InterfaceOption.{interface_description, interface_entry, InterfaceOptionIsBorrowed, InterfaceOptionIsOwned};
ghost use Rattle.pcap_core.specs.Errors.{IsMemory};

use crate::held::{Held, HeldValue, HoldsEntry};
use crate::interface_options;
use crate::kinds::{held_option, kept_option, read_option};
use crate::options::{CustomBinaryOption, CustomUtf8Option, PcapNgOption, UnknownOption};
use crate::owned::IntoStatic;
use crate::refusal::Refusal;
use byteorder::ByteOrder;
use pcap_core::{CowBytes, ResultParsing};
use std::alloc::{AllocError, Global};
use std::borrow::CowStr;

/// An option of an interface description ('Interface Description Block').
#[derive(Clone, Debug, Drop)]
pub enum InterfaceDescriptionOption<'a> {
    /// A comment on the interface (opt_comment, code 1).
    Comment(CowStr<'a>),
    /// The name of the device (if_name, code 2).
    IfName(CowStr<'a>),
    /// A description of the device (if_description, code 3).
    IfDescription(CowStr<'a>),
    /// An IPv4 address and its netmask, 4 bytes each (if_IPv4addr, code 4).
    IfIpv4Addr(CowBytes<'a>),
    /// An IPv6 address, 16 bytes, and the length of its prefix in bits, one byte (if_IPv6addr, code 5).
    IfIpv6Addr(CowBytes<'a>),
    /// The hardware's MAC address, 6 bytes (if_MACaddr, code 6).
    IfMacAddr(CowBytes<'a>),
    /// The hardware's EUI address, 8 bytes as a number in the section's byte order (if_EUIaddr, code 7).
    IfEuIAddr(u64),
    /// The interface's speed in bits per second (if_speed, code 8).
    IfSpeed(u64),
    /// The timestamp resolution in seconds (if_tsresol, code 9). It is 10 to the power of minus this number. If the
    /// highest bit is set, it is 2 to the power of minus the other seven bits.
    IfTsResol(u8),
    /// The time zone, a number of 4 bytes whose unit the draft leaves open (if_tzone, code 10).
    IfTzone(u32),
    /// The capture filter, at least one byte (if_filter, code 11). The first byte gives the filter's form.
    IfFilter(CowBytes<'a>),
    /// The operating system of the interface's machine (if_os, code 12).
    IfOs(CowStr<'a>),
    /// The length of the frame check sequence in bits (if_fcslen, code 13).
    IfFcsLen(u8),
    /// The seconds to add to each timestamp (if_tsoffset, code 14).
    IfTsOffset(u64),
    /// A description of the hardware (if_hardware, code 15).
    IfHardware(CowStr<'a>),
    /// A custom option with bytes (code 2989 or 19373).
    CustomBinary(CustomBinaryOption<'a>),
    /// A custom option with a string (code 2988 or 19372).
    CustomUtf8(CustomUtf8Option<'a>),
    /// An option with another code.
    Unknown(UnknownOption<'a>),
}

impl HoldsEntry for InterfaceDescriptionOption<'_> {
    ghost entry = { interface_entry };

    fn held(&self) -> Held<'_> {
        interface_options!(held_option self)
    }
}

impl<'a> PcapNgOption<'a> for InterfaceDescriptionOption<'a> {
    ghost kind = { interface_description };

    ghost is_borrowed = { InterfaceOptionIsBorrowed };

    #[inline(always)]
    fn from_value<B: ByteOrder>(code: u16, len: u16, value: &'a [u8]) -> Result<Self, Refusal> {
        interface_options!(read_option B code len value)
    }
}

impl<'a> InterfaceDescriptionOption<'a> {
    /// Returns the same option with its own bytes and strings: it copies borrowed ones and keeps owned ones.
    ///
    /// Returns `OutOfMemory` if an allocation fails; the value is then dropped.
    pub fn into_owned(self, alloc: Global) -> ResultParsing<InterfaceDescriptionOption<'static>>
        ensures same { IfOk result (λ kept. interface_entry kept ≡ interface_entry self.entry) }
        ensures owned { IfOk result InterfaceOptionIsOwned }
        ensures memory { IfErr result IsMemory }
        ensures kept { InterfaceOptionIsOwned self.entry → IsOk result }
    {
        Ok(self.into_static(alloc)?)
    }
}

impl<'a> IntoStatic for InterfaceDescriptionOption<'a> {
    type Owned = InterfaceDescriptionOption<'static>;

    ghost is_same = { λ value kept. interface_entry kept ≡ interface_entry value };

    ghost is_owned = { InterfaceOptionIsOwned };

    ghost needs_no_memory = { InterfaceOptionIsOwned };

    fn into_static(self, alloc: Global) -> Result<InterfaceDescriptionOption<'static>, AllocError> {
        interface_options!(kept_option self alloc)
    }
}
