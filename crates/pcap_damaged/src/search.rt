//! The search for the place from which packets go on.

ghost use Rattle.std.specs.Prelude.{◌≤◌, length};
ghost use Rattle.pcap_classic.specs.Parser.{header_of};
ghost use Rattle.pcap_damaged.specs.Lengths.{FirstPackets};
ghost use Rattle.pcap_damaged.specs.Plausible.{FirstBefore, GoesOn};

use crate::behind::goes_on;
use pcap_classic::pcap::PcapParser;
use pcap_tolerant::resync::resync as resync_by_rules;

/// The number of packets without a flaw that resynchronization needs in a row if no times are near each other.
const IN_A_ROW: usize = 3;

// Returns the first of the first `most` places from which packets go on, or None.
fn first_of(parser: &PcapParser, time: u32, slice: &[u8], most: usize) -> Option<usize>
    requires { most ≤ length slice.now }
    ensures { FirstBefore (GoesOn (header_of parser.now) time) most slice.now result }
{
    let mut at = 0;
    while at < most {
        if goes_on(parser, time, &slice[at..]) {
            return Some(at);
        }
        at += 1;
    }
    None
}

/// Returns the first place before `bound` from which packets go on in a damaged capture, or None. There is the header of another
/// capture, or two plausible packets in a row near `time`, or four near each other. Fewer packets, at least one, are enough if
/// they reach the end of the slice. `time` is that of the packet before, in seconds since 1970.
///
/// A plausible packet breaks no rule, has data, no more than the snapshot length, and a fraction below a second. Times are near
/// each other if they differ by at most a day. The result is a guess, since corrupt bytes may look like packets.
pub fn resync(parser: &PcapParser, time: u32, slice: &[u8], bound: usize) -> Option<usize>
    ensures { FirstBefore (GoesOn (header_of parser.now) time) bound slice.now result }
{
    first_of(parser, time, slice, bound.min(slice.len()))
}

/// Returns the first place before `bound` from which packets go on, as `resync` finds it. Without one it returns the first place in the slice
/// at which three packets follow each other that break no rule and have data, whatever their times. Fewer packets, at least one, are enough
/// if they reach the end of the slice.
pub fn first_packets(parser: &PcapParser, time: u32, slice: &[u8], bound: usize) -> Option<usize>
    ensures { FirstPackets (header_of parser.now) time bound slice.now result }
{
    match resync(parser, time, slice, bound) {
        Some(place) => Some(place),
        None => resync_by_rules(parser, slice, IN_A_ROW),
    }
}
