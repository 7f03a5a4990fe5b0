//! What may follow a packet.

ghost use Rattle.std.specs.Prelude.{◌↔◌, IsTrue};
ghost use Rattle.pcap_classic.specs.Parser.{header_of};
ghost use Rattle.pcap_damaged.specs.Heads.{head_in};
ghost use Rattle.pcap_damaged.specs.Plausible.{BeginsNear, EndsHere, Follows, GoesOn, MayFollow};

use crate::heads::{Numbers, begins_capture, head_at, is_near};
use crate::row::is_row;
use pcap_classic::pcap::{PACKET_LIMIT, PcapParser};

/// The number of packets near a known time that resynchronization needs in a row.
const IN_A_ROW: usize = 2;

/// The number of packets near each other that resynchronization needs in a row.
const IN_A_LONG_ROW: usize = 4;

// Returns whether a head may follow a packet at this time.
fn may_follow(time: u32, head: Numbers) -> bool
    ensures { IsTrue result ↔ MayFollow time (head_in head) }
{
    head.included <= PACKET_LIMIT
        && (head.seconds > 0 || head.fraction > 0 || head.included > 0 || head.original > 0)
        && is_near(time, head.seconds)
}

/// Returns whether the slice begins with a packet's head at most a day before or after `time`, in seconds since 1970. Not all
/// numbers of the head are 0, and its stored length is at most 262144 bytes.
pub fn begins_near(parser: &PcapParser, time: u32, slice: &[u8]) -> bool
    ensures { IsTrue result ↔ BeginsNear (header_of parser.now) time slice.now }
{
    match head_at(parser, slice) {
        None => false,
        Some((head, _rest)) => may_follow(time, head),
    }
}

// Returns whether the capture ends here, or another one begins.
fn ends_here(slice: &[u8]) -> bool
    ensures { IsTrue result ↔ EndsHere slice.now }
{
    slice.is_empty() || begins_capture(slice)
}

// Returns whether packets go on at the front of the slice.
#[tactic(auto, unfolding(crate::specs::Plausible::GoesOn))]
pub(crate) fn goes_on(parser: &PcapParser, time: u32, slice: &[u8]) -> bool
    ensures { IsTrue result ↔ GoesOn (header_of parser.now) time slice.now }
{
    begins_capture(slice)
        || is_row(parser, Some(time), slice, IN_A_ROW)
        || is_row(parser, None, slice, IN_A_LONG_ROW)
}

/// Returns whether the slice may follow a packet at `time`, in seconds since 1970. It is empty, or begins with the header of
/// another capture, with a head near that time, or with four plausible packets near each other.
#[tactic(auto, unfolding(crate::specs::Plausible::Follows))]
pub fn follows(parser: &PcapParser, time: u32, slice: &[u8]) -> bool
    ensures { IsTrue result ↔ Follows (header_of parser.now) time slice.now }
{
    ends_here(slice)
        || begins_near(parser, time, slice)
        || is_row(parser, None, slice, IN_A_LONG_ROW)
}
