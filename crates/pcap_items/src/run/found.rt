//! The result of a parser at the front of a slice.

ghost use Rattle.std.specs.Prelude.{◌≡◌};
ghost use Rattle.pcap_items.specs.Found.{found_of};

use pcap_core::{PcapError, ResultParsing};
use std::alloc::AllocError;

/// The result of a parser at the front of a slice: an item, a truncated item, or bytes that begin no item.
#[derive(Debug, Drop)]
pub enum Found<T, E> {
    /// An item.
    Item(T),
    /// A truncated item. At least this many bytes are missing.
    Needs(usize),
    /// Bytes that begin no item, and why.
    Refused(E),
}

/// Returns what a parser's answer says about the slice: the item at its front with what follows it, or why there is none.
///
/// `OutOfMemory` says nothing about the slice, and becomes the error.
pub fn found_in<'a, T: Drop>(
    answer: ResultParsing<(&'a [u8], T)>,
) -> Result<Found<(&'a [u8], T), PcapError>, AllocError>
    ensures { result ≡ found_of answer.entry }
{
    match answer {
        Ok(item) => Ok(Found::Item(item)),
        Err(PcapError::IncompleteBuffer(n)) => Ok(Found::Needs(n)),
        Err(PcapError::OutOfMemory(e)) => Err(e),
        Err(e) => Ok(Found::Refused(e)),
    }
}
