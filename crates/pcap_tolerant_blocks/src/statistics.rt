//! Interface statistics read leniently.

ghost use Rattle.std.specs.Prelude.{IfOk, IfErr, IfSome};
ghost use Rattle.pcap_blocks.specs.InterfaceStatistics.{StatisticsIsBorrowed};
ghost use Rattle.pcap_tolerant_blocks.specs.StatisticsAsIs.{StatisticsAsIsText, statistics_in, flaws_said, StatisticsGrow};

use crate::flaws::Flaw;
use crate::list::{Unread, list_as_is};
use byteorder::ByteOrder;
use pcap_blocks::{InterfaceStatisticsBlock, InterfaceStatisticsOption, UnknownOption, split_time};
use pcap_core::fields::split_u32;
use pcap_core::rules::Rule;
use std::alloc::{AllocError, Global};

/// Interface statistics read leniently, with their flaws.
#[derive(Debug, Drop)]
pub struct StatisticsAsIs<'a> {
    /// The statistics, or None if the body has no room for the interface and the time. An option whose value breaks its rule
    /// becomes an option of an unknown code, with its bytes.
    pub statistics: Option<InterfaceStatisticsBlock<'a>>,
    /// The flaws in the order of the text. Strict reading refuses the statistics for the first of them.
    pub flaws: Vec<Flaw>,
}

impl<'a> StatisticsAsIs<'a> {
    /// Reads a block's body as interface statistics leniently, and returns what follows their options and the statistics.
    ///
    /// The options end at their mark, at the end of the slice, or where no next option can be found. If there are no
    /// statistics, the whole slice is left. Strings and bytes are borrowed from the slice.
    ///
    /// Returns `AllocError` if a list can't grow. This can happen only if there is a flaw or an option.
    pub fn from_slice<B: ByteOrder>(
        alloc: Global,
        slice: &'a [u8],
    ) -> Result<(&'a [u8], Self), AllocError>
        ensures read { IfOk result (λ x. StatisticsAsIsText B.number_of (statistics_in x.1) (flaws_said x.1) slice.now x.0.now) }
        ensures memory { IfErr result (λ _. StatisticsGrow B.number_of slice.now) }
        ensures borrowed { IfOk result (λ x. IfSome x.1.statistics StatisticsIsBorrowed) }
    {
        if slice.len() < 12 {
            let flaws = Flaw::alone(alloc, Rule::StatisticsTooShort)?;
            let none = StatisticsAsIs {
                statistics: None,
                flaws,
            };
            return Ok((slice, none));
        }
        let (interface_id, rest) = split_u32::<B>(slice);
        let (timestamp, rest) = split_time::<B>(rest);
        let list = list_as_is::<InterfaceStatisticsOption, B>(alloc, rest)?;
        let statistics = InterfaceStatisticsBlock {
            interface_id,
            timestamp,
            options: list.options,
        };
        Ok((
            list.left,
            StatisticsAsIs {
                statistics: Some(statistics),
                flaws: list.flaws,
            },
        ))
    }
}

impl<'a> Unread<'a> for InterfaceStatisticsOption<'a> {
    fn unread(option: UnknownOption<'a>) -> Self {
        Self::Unknown(option)
    }
}
