//! Interface statistics.

ghost use Rattle.std.specs.Prelude.{IsOk, IfOk, ◌≡◌, IfErr};
ghost use Rattle.pcap_core.specs.Answer.{TellsWhere};
ghost use Rattle.pcap_options.specs.Refusal.{FindsWhere};
ghost use Rattle.pcap_blocks.specs.InterfaceStatistics.{StatisticsSays, statistics_of, StatisticsIsBorrowed, StatisticsIsOwned};
ghost use Rattle.pcap_blocks.specs.InterfaceStatistics.{StatisticsNeedsNoMemory, StatisticsMayGrow};
ghost use Rattle.pcap_core.specs.Errors.{IsMemory};

use crate::time::split_time;
use byteorder::ByteOrder;
use pcap_core::ResultParsing;
use pcap_core::fields::split_u32;
use pcap_core::rules::Rule;
use pcap_options::{
    InterfaceStatisticsOption, IntoStatic, Refusal, kept_fields, options_from_slice,
};
use std::alloc::{AllocError, Global};

/// The body of interface statistics ('Interface Statistics Block'): the numbers that an interface counted.
#[derive(Clone, Debug, Drop)]
pub struct InterfaceStatisticsBlock<'a> {
    /// The number of the interface, counted from 0 in the order of the section's interface descriptions.
    pub interface_id: u32,
    /// The time of the count since 1970-01-01 00:00:00 UTC, without the interface's `IfTsOffset`, in units of its
    /// `IfTsResol`, or of 10^-6 s if it has none.
    pub timestamp: u64,
    /// The options, such as the numbers of packets.
    pub options: Vec<InterfaceStatisticsOption<'a>>,
}

impl<'a> InterfaceStatisticsBlock<'a> {
    /// Reads interface statistics from the body of a block, and returns the bytes after their options and the
    /// statistics. The options end at the end-of-options option or with the slice. Strings and bytes are borrowed from
    /// the slice.
    ///
    /// Returns `InvalidField` for fewer than 12 bytes. Then the first malformed option decides the error. `Utf8Error`
    /// is for a string that isn't UTF-8. `IoError` is for a number or time under 8 bytes, or a custom value under 4
    /// bytes. `InvalidField` is for another broken rule.
    ///
    /// Returns `OutOfMemory` if an allocation fails, which can happen only if there is an option.
    pub fn from_slice<B: ByteOrder>(
        alloc: Global,
        slice: &'a [u8],
    ) -> ResultParsing<(&'a [u8], Self)>
        ensures tells { TellsWhere (StatisticsMayGrow B.number_of slice.now) (StatisticsSays B.number_of slice.now) statistics_of result }
        ensures borrowed { IfOk result (λ x. StatisticsIsBorrowed x.1) }
    {
        Ok(InterfaceStatisticsBlock::read::<B>(alloc, slice)?)
    }

    pub(crate) fn read<B: ByteOrder>(
        alloc: Global,
        slice: &'a [u8],
    ) -> Result<(&'a [u8], Self), Refusal>
        ensures tells { FindsWhere (StatisticsMayGrow B.number_of slice.now) (StatisticsSays B.number_of slice.now) statistics_of result }
        ensures borrowed { IfOk result (λ x. StatisticsIsBorrowed x.1) }
    {
        if slice.len() < 12 {
            return Err(Refusal::Invalid(Rule::StatisticsTooShort));
        }
        let (interface_id, rest) = split_u32::<B>(slice);
        let (timestamp, rest) = split_time::<B>(rest);
        let (rest, options) = options_from_slice::<InterfaceStatisticsOption, B>(alloc, rest)?;
        let block = InterfaceStatisticsBlock {
            interface_id,
            timestamp,
            options,
        };
        Ok((rest, block))
    }

    /// Returns the same statistics with their own bytes and strings: it copies borrowed ones and keeps owned ones.
    ///
    /// Returns `OutOfMemory` if an allocation fails; the value is then dropped.
    pub fn into_owned(self, alloc: Global) -> ResultParsing<InterfaceStatisticsBlock<'static>>
        ensures same { IfOk result (λ kept. statistics_of kept ≡ statistics_of self.entry) }
        ensures owned { IfOk result StatisticsIsOwned }
        ensures memory { IfErr result IsMemory }
        ensures kept { StatisticsNeedsNoMemory self.entry → IsOk result }
    {
        Ok(self.into_static(alloc)?)
    }
}

impl<'a> IntoStatic for InterfaceStatisticsBlock<'a> {
    type Owned = InterfaceStatisticsBlock<'static>;

    ghost is_same = { λ value kept. statistics_of kept ≡ statistics_of value };

    ghost is_owned = { StatisticsIsOwned };

    ghost needs_no_memory = { StatisticsNeedsNoMemory };

    #[tactic(auto, using(pcap_core::proofs::Kept::map_kept))]
    fn into_static(self, alloc: Global) -> Result<InterfaceStatisticsBlock<'static>, AllocError> {
        kept_fields!(self alloc InterfaceStatisticsBlock { interface_id timestamp } each { options })
    }
}
