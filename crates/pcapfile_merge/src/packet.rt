//! The next packet of a capture.

ghost use Rattle.pcapfile_merge.specs.Packets.{TellsBefore};

use pcap_file::pcapng::Timestamp;
use pcap_times::laws::times_are_ordered;

/// The most bytes that a packet in a block may have.
pub(crate) const MOST: usize = 4_294_967_260;

/// The facts about the packet that a reader holds.
#[derive(Clone, Copy)]
pub(crate) struct Pending {
    /// The number of its interface among those of all captures.
    pub(crate) number: u32,
    /// Its time, if it has one.
    pub(crate) time: Option<Timestamp>,
    /// Its time in units of its interface's clock.
    pub(crate) units: u64,
    /// Its length on the wire, in bytes.
    pub(crate) original_len: u32,
    /// How many bytes of the body of its block come before its own.
    pub(crate) start: usize,
    /// The number of its stored bytes, or the size of its block if that is made.
    pub(crate) len: usize,
    /// Whether its block is made for the output.
    pub(crate) is_made: bool,
    /// Whether it is no packet but the description of an interface.
    pub(crate) is_interface: bool,
    /// How many options of its block in the capture are left out.
    pub(crate) left_out: u64,
}

/// Returns whether a packet of the first time goes before one of the second. A packet without a time goes before each that has one.
#[inline(always)]
pub(crate) fn is_before(left: Option<Timestamp>, right: Option<Timestamp>) -> bool
    ensures { TellsBefore left right result }
{
    match (left, right) {
        (_, None) => false,
        (None, Some(_)) => true,
        (Some(left), Some(right)) => times_are_ordered(left, right),
    }
}
