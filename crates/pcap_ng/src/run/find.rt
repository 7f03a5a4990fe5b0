//! The search for the first block of a capture.

ghost use Rattle.pcap_items.specs.Found.{FindsWhere};
ghost use Rattle.pcap_ng.specs.Blocks.{MayGrow};
ghost use Rattle.pcap_ng.specs.Opening.{OpeningSays};
ghost use Rattle.pcap_ng.specs.Parser.{state_of};
ghost use Rattle.pcap_ng.specs.State.{opening};

use crate::pcapng::PcapNgParser;
use pcap_core::PcapError;
use pcap_items::run::{Found, found_in};
use std::alloc::{AllocError, Global};

// Finds the first block at the front of a slice, and returns the parser after it.
pub(crate) fn find_first<'a>(
    alloc: Global,
    slice: &'a [u8],
) -> Result<Found<(&'a [u8], PcapNgParser), PcapError>, AllocError>
    ensures { FindsWhere (MayGrow opening slice.now) (OpeningSays slice.now) state_of result }
{
    found_in(PcapNgParser::new(alloc, slice))
}
