//! The rest after the last whole item.

ghost use Rattle.std.specs.Prelude.{◌≡◌};
ghost use Rattle.pcap_items.specs.Run.{rest_or_memory_of};

use pcap_core::PcapError;
use std::alloc::AllocError;

/// The rest after the last whole item: nothing, a truncated item, or bytes that begin no item.
#[derive(Debug, Drop)]
pub enum Rest {
    /// Nothing is left.
    Clean,
    /// A truncated item is left. At least this many bytes are missing.
    Needs(usize),
    /// The bytes that are left begin no item. The error says why.
    Refused(PcapError),
}

/// Returns the rest that a parser's error reports. `OutOfMemory` reports no rest, and becomes the error.
pub fn rest_or_memory(error: PcapError) -> Result<Rest, AllocError>
    ensures { result ≡ rest_or_memory_of error }
{
    match error {
        PcapError::IncompleteBuffer(n) => Ok(Rest::Needs(n)),
        PcapError::OutOfMemory(e) => Err(e),
        error => Ok(Rest::Refused(error)),
    }
}
