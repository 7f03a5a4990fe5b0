//! The options of interface statistics.

ghost use Rattle.std.specs.Prelude.{IsOk, IfOk, ◌≡◌, IfErr};
ghost use Rattle.pcap_options.specs.StatisticsOption.{interface_statistics, statistics_entry, StatisticsOptionIsBorrowed, StatisticsOptionIsOwned};
ghost use Rattle.pcap_core.specs.Errors.{IsMemory};

use crate::held::{Held, HeldValue, HoldsEntry};
use crate::kinds::{held_option, kept_option, read_option};
use crate::options::{CustomBinaryOption, CustomUtf8Option, PcapNgOption, UnknownOption};
use crate::owned::IntoStatic;
use crate::refusal::Refusal;
use crate::statistics_options;
use byteorder::ByteOrder;
use pcap_core::ResultParsing;
use std::alloc::{AllocError, Global};
use std::borrow::CowStr;

/// An option of interface statistics ('Interface Statistics Block'). Times have the unit of the block's timestamp.
#[derive(Clone, Debug, Drop)]
pub enum InterfaceStatisticsOption<'a> {
    /// A comment on the statistics (opt_comment, code 1).
    Comment(CowStr<'a>),
    /// The time when the capture began (isb_starttime, code 2).
    IsbStartTime(u64),
    /// The time when the capture ended (isb_endtime, code 3).
    IsbEndTime(u64),
    /// The number of packets that the interface received (isb_ifrecv, code 4).
    IsbIfRecv(u64),
    /// The number of packets that the interface dropped (isb_ifdrop, code 5).
    IsbIfDrop(u64),
    /// The number of packets that the filter accepted (isb_filteraccept, code 6).
    IsbFilterAccept(u64),
    /// The number of packets that the operating system dropped (isb_osdrop, code 7).
    IsbOsDrop(u64),
    /// The number of packets that were delivered to the user (isb_usrdeliv, code 8).
    IsbUsrDeliv(u64),
    /// A custom option with bytes (code 2989 or 19373).
    CustomBinary(CustomBinaryOption<'a>),
    /// A custom option with a string (code 2988 or 19372).
    CustomUtf8(CustomUtf8Option<'a>),
    /// An option with another code.
    Unknown(UnknownOption<'a>),
}

impl HoldsEntry for InterfaceStatisticsOption<'_> {
    ghost entry = { statistics_entry };

    fn held(&self) -> Held<'_> {
        statistics_options!(held_option self)
    }
}

impl<'a> PcapNgOption<'a> for InterfaceStatisticsOption<'a> {
    ghost kind = { interface_statistics };

    ghost is_borrowed = { StatisticsOptionIsBorrowed };

    #[inline(always)]
    fn from_value<B: ByteOrder>(code: u16, len: u16, value: &'a [u8]) -> Result<Self, Refusal> {
        statistics_options!(read_option B code len value)
    }
}

impl<'a> InterfaceStatisticsOption<'a> {
    /// Returns the same option with its own bytes and strings: it copies borrowed ones and keeps owned ones.
    ///
    /// Returns `OutOfMemory` if an allocation fails; the value is then dropped.
    pub fn into_owned(self, alloc: Global) -> ResultParsing<InterfaceStatisticsOption<'static>>
        ensures same { IfOk result (λ kept. statistics_entry kept ≡ statistics_entry self.entry) }
        ensures owned { IfOk result StatisticsOptionIsOwned }
        ensures memory { IfErr result IsMemory }
        ensures kept { StatisticsOptionIsOwned self.entry → IsOk result }
    {
        Ok(self.into_static(alloc)?)
    }
}

impl<'a> IntoStatic for InterfaceStatisticsOption<'a> {
    type Owned = InterfaceStatisticsOption<'static>;

    ghost is_same = { λ value kept. statistics_entry kept ≡ statistics_entry value };

    ghost is_owned = { StatisticsOptionIsOwned };

    ghost needs_no_memory = { StatisticsOptionIsOwned };

    fn into_static(self, alloc: Global) -> Result<InterfaceStatisticsOption<'static>, AllocError> {
        statistics_options!(kept_option self alloc)
    }
}
